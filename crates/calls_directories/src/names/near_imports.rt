//! Imports in a list. Hints with their names mostly lie in one section, which a list keeps.

ghost use Rattle.std.specs.Prelude.{◌≡◌, ◌==◌, ◌+◌, ◌≤◌, length, IfOk, IfSome};
ghost use Rattle.pe_core.specs.Imports.{entry_size};
ghost use Rattle.pe_core.specs.Refusals.{Returns, answer_of};
ghost use Rattle.pe_core.specs.SectionMap.{mapped};
ghost use Rattle.calls_directories.specs.Imports.{import_at, import_step, named_reported};
ghost use Rattle.calls_base.specs.KeptSections.{ChangeNothing};
ghost use Rattle.calls_base.specs.NearMaps.{IsWindow};
ghost use Rattle.calls_base.specs.Views.{map_of};

use crate::names::all_imports::LibraryImports;
use crate::names::imports::{Import, Imports, SIZE_OF_HINT};
use calls_base::kept_sections::KeptSections;
use calls_base::named_view::NamedView;
use calls_base::near_map::{Window, map_near};
use calls_base::ranges::{NO_BYTES, Range};
use calls_base::view::View;
use calls_base::walks::next_entry;
use pe_core::{Error, Reason, Result, lookup_number, lookup_size, u16_at};

/// A walk over the imports of a library in a list.
#[derive(Clone, Copy)]
pub struct NearImports<'a> {
    pub names: NamedView<'a>,
    pub walk: Imports,
    /// The RVAs near the last hint.
    pub hints: Window,
    ghost near: { IsWindow (map_of names.view.now) hints },
}

/// The same over the imports of all libraries.
#[derive(Clone, Copy)]
pub struct NearLibraryImports<'a> {
    pub names: NamedView<'a>,
    pub walk: LibraryImports,
    /// The RVAs near the last hint.
    pub hints: Window,
    /// The sections of the last libraries.
    pub kept: KeptSections,
    ghost near: { IsWindow (map_of names.view.now) hints },
    ghost right: { ChangeNothing names.view.now kept },
}

/// The file offset of an RVA, or `Unmapped`.
#[inline(always)]
fn require_near(view: &View, rva: u32, window: &mut Window) -> Result<usize>
    requires { IsWindow (map_of view.now) window.old }
    ensures offset { Returns result (mapped (map_of view.now rva)) }
    ensures near { IsWindow (map_of view.now) window.new }
{
    match map_near(view, rva, window) {
        Some(offset) => Ok(offset),
        None => Err(Error::Malformed(Reason::Unmapped(u64::from(rva)))),
    }
}

/// The import by name of an entry, as a step returns it.
#[inline(always)]
fn named_near(names: &NamedView<'_>, entry: u64, rva: u64, hints: &mut Window) -> Result<Import>
    requires { IsWindow (map_of names.now.view.now) hints.old }
    ensures import { Returns result
        (named_reported (map_of names.now.view.now) names.now.view.now.bytes.now entry rva) }
    ensures near { IsWindow (map_of names.now.view.now) hints.new }
{
    let name_rva = (entry % 0x8000_0000) as u32;
    let offset = require_near(names.view, name_rva, hints)?;
    let hint = u16_at(names.view.bytes, offset)?;
    let Some(name) = names.text_at(offset + SIZE_OF_HINT) else {
        return Err(Error::Malformed(Reason::ImportName(name_rva)));
    };
    Ok(Import {
        name: Range {
            offset: (offset + SIZE_OF_HINT) as u64,
            length: name.len() as u64,
        },
        rva,
        ordinal: u32::from(hint),
        has_name: 1,
    })
}

/// The import of an entry and its slot.
#[inline(always)]
#[tactic(auto, unfolding(pe_core::specs::Imports::import_of))]
fn import_near(names: &NamedView<'_>, entry: u64, rva: u64, hints: &mut Window) -> Result<Import>
    requires { IsWindow (map_of names.now.view.now) hints.old }
    ensures import { Returns result (import_at (map_of names.now.view.now)
        (entry_size (names.now.view.now.image.now.width == 64)) names.now.view.now.bytes.now entry rva) }
    ensures near { IsWindow (map_of names.now.view.now) hints.new }
{
    let highest = if names.view.image.width == 64 {
        0x8000_0000_0000_0000
    } else {
        0x8000_0000
    };
    if entry >= highest {
        return Ok(Import {
            name: NO_BYTES,
            rva,
            ordinal: (entry % 0x1_0000) as u32,
            has_name: 0,
        });
    }
    named_near(names, entry, rva, hints)
}

/// One step of a walk.
#[inline(always)]
#[tactic(auto, unfolding(crate::specs::Imports::import_step))]
pub fn step_near(
    names: &NamedView<'_>,
    walk: &mut Imports,
    hints: &mut Window,
) -> Result<Option<Import>>
    requires { IsWindow (map_of names.now.view.now) hints.old }
    ensures step { (answer_of result, walk.new) ≡ import_step (map_of names.now.view.now)
        (entry_size (names.now.view.now.image.now.width == 64)) names.now.view.now.bytes.now walk.old }
    ensures there { IfOk result (λ i. IfSome i (λ _. walk.old.left.offset
        + entry_size (names.now.view.now.image.now.width == 64) ≤ length names.now.view.now.bytes.now)) }
    ensures near { IsWindow (map_of names.now.view.now) hints.new }
{
    let is_64 = names.view.image.width == 64;
    let size = lookup_size(is_64);
    let Some(left) = next_entry(names.view.bytes, &mut walk.left, size)? else {
        return Ok(None);
    };
    let entry = lookup_number(left, 0, is_64);
    match import_near(names, entry, walk.rva, hints) {
        Ok(import) => {
            // A caller may pass any RVA.
            walk.rva = walk.rva.wrapping_add(size as u64);
            Ok(Some(import))
        }
        Err(error) => {
            walk.left = NO_BYTES;
            Err(error)
        }
    }
}
