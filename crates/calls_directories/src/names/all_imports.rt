//! The imports of all libraries in one walk. It goes through the walk over libraries, and through the walk over the imports of
//! each. Where many libraries name one long text their names are read together, which walks over one library each cannot do.
//! https://learn.microsoft.com/windows/win32/debug/pe-format#the-idata-section

ghost use Rattle.std.specs.Prelude.{◌≡◌, ◌+◌, ◌==◌, ◌<◌, ◌≤◌, IfNone, length};
ghost use Rattle.std.specs.Option.{option_map};
ghost use Rattle.pe_core.specs.Imports.{entry_size};
ghost use Rattle.pe_core.specs.Refusals.{answer_of};
ghost use Rattle.calls_directories.specs.LibraryImports.{StepsLibraryImports, all_over, at_library, next_library, turn, with_library};
ghost use Rattle.calls_base.specs.KeptSections.{ChangeNothing};
ghost use Rattle.calls_base.specs.NearMaps.{IsWindow};
ghost use Rattle.calls_base.specs.Views.{map_of};
ghost use Rattle.calls_base.specs.HandsOut.{result_number};
ghost use Rattle.calls_base.specs.Lists.{HandsOutList, Numbered};
ghost use Rattle.calls_directories.specs.KeptWalks.{StepsNearLibraryImports};

use crate::names::imports::{
    Import, Imports, Libraries, Library, NO_LIBRARIES, kept_after_library_step, library_step_kept,
    put_entry_names, record_left,
};
use crate::names::near_imports::{NearLibraryImports, step_near};
use calls_base::kept_sections::{KeptSections, NO_SECTIONS};
use calls_base::lists::{Steps, hand_out_list, numbered};
use calls_base::named_view::NamedView;
use calls_base::near_map::{NO_WINDOW, Window, map_near};
use calls_base::ranges::{NO_BYTES, Range, bytes_there};
use calls_base::text_runs::Run;
use calls_base::view::View;
use pe_core::{ImportDirectoryEntry, Result, lookup_number, lookup_size};

/// A walk over the imports of all libraries of an import directory. It starts as zeros with the libraries that
/// `pe_c_import_libraries` returns.
#[repr(C)]
#[derive(Clone, Copy)]
pub struct LibraryImports {
    /// The libraries after the one that is walked over.
    pub libraries: Libraries,
    /// The imports that this one has left.
    pub imports: Imports,
    /// Its name: UTF-8, without its final zero.
    pub library_name: Range,
    /// How many libraries were begun. 0 before the first.
    pub begun: u64,
}

/// An import, and the library that it is from.
#[repr(C)]
#[derive(Clone, Copy)]
pub struct LibraryImport {
    /// As `pe_c_next_import` returns it.
    pub import: Import,
    /// The library's name: UTF-8, without its final zero.
    pub library_name: Range,
    /// The library's index in the order of the import directory.
    pub library: u64,
    /// RVA of the hint, which the name follows; 0 of an import by ordinal.
    pub hint_rva: u32,
    /// 0.
    pub spare: u32,
}

/// An import with its library, as a walk returns it whose next entry it is of.
fn with_library(view: &View, walk: &LibraryImports, import: Import) -> LibraryImport
    requires { walk.now.imports.left.offset + entry_size (view.now.image.now.width == 64)
        ≤ length view.now.bytes.now }
    ensures { result ≡ with_library (entry_size (view.now.image.now.width == 64)) view.now.bytes.now
        walk.now.library_name walk.now.begun walk.now.imports import }
{
    let hint_rva = if import.has_name == 0 {
        0
    } else {
        let offset = walk.imports.left.offset as usize;
        let entry = lookup_number(view.bytes, offset, view.image.width == 64);
        (entry % 0x8000_0000) as u32
    };
    LibraryImport {
        import,
        library_name: walk.library_name,
        library: walk.begun.saturating_sub(1),
        hint_rva,
        spare: 0,
    }
}

/// The walk after an error.
fn all_over(walk: &LibraryImports) -> LibraryImports
    ensures { result ≡ all_over walk.now }
{
    let imports = Imports {
        left: NO_BYTES,
        ..walk.imports
    };
    LibraryImports {
        libraries: NO_LIBRARIES,
        imports,
        ..*walk
    }
}

/// The walk at the start of a library, after which others are left.
fn at_library(walk: &LibraryImports, rest: Libraries, library: &Library) -> LibraryImports
    ensures { result ≡ at_library walk.now rest library.now }
{
    LibraryImports {
        libraries: rest,
        imports: library.imports,
        library_name: library.name,
        begun: walk.begun.saturating_add(1),
    }
}

/// One turn: the next import of the library that is walked over. If it has none left none, and the next library begins; after
/// the last and after an error the step ends.
#[tactic(auto, unfolding(crate::specs::LibraryImports::turn))]
fn turn(
    names: &NamedView<'_>,
    walk: LibraryImports,
    hints: &mut Window,
    kept: &mut KeptSections,
) -> (Option<Result<Option<LibraryImport>>>, LibraryImports)
    requires near { IsWindow (map_of names.now.view.now) hints.old }
    requires kept { ChangeNothing names.now.view.now kept.old }
    ensures turn { (option_map answer_of result.0, result.1) ≡ turn (map_of names.now.view.now)
        (entry_size (names.now.view.now.image.now.width == 64)) names.now.view.now.bytes.now walk }
    ensures onward { IfNone result.0 (walk.libraries.next < result.1.libraries.next) }
    ensures near { IsWindow (map_of names.now.view.now) hints.new }
    ensures kept { ChangeNothing names.now.view.now kept.new }
{
    let mut imports = walk.imports;
    match step_near(names, &mut imports, hints) {
        Ok(Some(import)) => {
            let found = with_library(names.view, &walk, import);
            (Some(Ok(Some(found))), LibraryImports { imports, ..walk })
        }
        Ok(None) => next_library(names, walk, kept),
        Err(error) => (Some(Err(error)), all_over(&walk)),
    }
}

/// The same of a library without an import.
fn next_library(
    names: &NamedView<'_>,
    walk: LibraryImports,
    kept: &mut KeptSections,
) -> (Option<Result<Option<LibraryImport>>>, LibraryImports)
    requires { ChangeNothing names.now.view.now kept.old }
    ensures turn { (option_map answer_of result.0, result.1) ≡ next_library (map_of names.now.view.now)
        (entry_size (names.now.view.now.image.now.width == 64)) names.now.view.now.bytes.now walk }
    ensures onward { IfNone result.0 (walk.libraries.next < result.1.libraries.next) }
    ensures kept { ChangeNothing names.now.view.now kept.new }
{
    let (given, rest) = library_step_kept(names, *kept, walk.libraries);
    *kept = kept_after_library_step(names.view, *kept, &given);
    match given {
        Ok(Some(library)) => (None, at_library(&walk, rest, &library)),
        Ok(None) => (
            Some(Ok(None)),
            LibraryImports {
                libraries: rest,
                ..walk
            },
        ),
        Err(error) => (Some(Err(error)), all_over(&walk)),
    }
}

/// One step: the next import, of whichever library.
pub fn step(
    names: &NamedView<'_>,
    walk: &mut LibraryImports,
    hints: &mut Window,
    kept: &mut KeptSections,
) -> Result<Option<LibraryImport>>
    requires near { IsWindow (map_of names.now.view.now) hints.old }
    requires kept { ChangeNothing names.now.view.now kept.old }
    ensures step { StepsLibraryImports (map_of names.now.view.now)
        (entry_size (names.now.view.now.image.now.width == 64)) names.now.view.now.bytes.now
        walk.old (answer_of result) walk.new }
    ensures near { IsWindow (map_of names.now.view.now) hints.new }
    ensures kept { ChangeNothing names.now.view.now kept.new }
{
    loop {
        let (given, after) = turn(names, *walk, hints, kept);
        *walk = after;
        match given {
            Some(given) => return given,
            // The next library has begun.
            None => {}
        }
    }
}

/// The entries at the start of some bytes, up to a zero one, so many at most.
fn first_entries(bytes: &[u8], is_64: bool, most: usize) -> &[u8] {
    let size = lookup_size(is_64);
    let count = most.min(bytes.len() / size);
    for i in 0..count {
        if lookup_number(bytes, size * i, is_64) == 0 {
            return &bytes[..size * i];
        }
    }
    &bytes[..size * count]
}

/// The entries at the start of a library's list, so many at most.
fn entries_of<'a>(
    view: &View<'a>,
    entry: &ImportDirectoryEntry,
    near: &mut Window,
    most: usize,
) -> &'a [u8]
    requires { IsWindow (map_of view.now) near.old }
    ensures { IsWindow (map_of view.now) near.new }
{
    match map_near(view, entry.lookups_rva(), near) {
        Some(offset) if offset <= view.bytes.len() => {
            first_entries(&view.bytes[offset..], view.image.width == 64, most)
        }
        _ => &[],
    }
}

/// Writes the offsets of the names that a walk reads to return so many imports, those of the libraries too, to a room, as starts,
/// as far as it has room, and returns how many they are. A walk ends at a library whose name is unmapped.
#[tactic(auto, using(calls_base::proofs::NearMaps::no_window))]
pub fn put_names(view: &View, walk: &LibraryImports, most: usize, room: &mut [Run]) -> usize
    ensures { result ≤ length room.new }
{
    let size = lookup_size(view.image.width == 64);
    let own = bytes_there(view.bytes, &walk.imports.left);
    let taken = most.min(own.len() / size);
    let mut hints = NO_WINDOW;
    let mut count = put_entry_names(view, &own[..size * taken], &mut hints, room);
    let mut near = NO_WINDOW;
    let mut left = most - taken;
    for i in 0..room.len() {
        if left == 0 || count == room.len() {
            break;
        }
        let Some(entry) = record_left(view, &walk.libraries, i) else {
            break;
        };
        let Some(offset) = map_near(view, entry.name_rva, &mut near) else {
            break;
        };
        room[count] = Run::at(offset);
        count += 1;
        let entries = entries_of(view, &entry, &mut near, left);
        count += put_entry_names(view, entries, &mut hints, &mut room[count..]);
        left = left.saturating_sub(entries.len() / size);
    }
    count
}

/// Steps over the imports of all libraries in a list.
#[derive(Clone, Copy)]
pub struct InLibraries;

impl<'a> Steps<NearLibraryImports<'a>, LibraryImport> for InLibraries {
    ghost steps = { λ s. Numbered result_number StepsNearLibraryImports };

    fn step(
        &self,
        near: &mut NearLibraryImports<'a>,
    ) -> std::result::Result<Option<LibraryImport>, u32> {
        let NearLibraryImports {
            names,
            mut walk,
            mut hints,
            mut kept,
            ..
        } = *near;
        let given = step(&names, &mut walk, &mut hints, &mut kept);
        *near = NearLibraryImports {
            names,
            walk,
            hints,
            kept,
        };
        numbered(given)
    }
}

/// Lists the imports of a walk.
#[tactic(auto, using(calls_base::proofs::NearMaps::no_window))]
pub fn list_library_imports(
    names: &NamedView<'_>,
    walk: &mut LibraryImports,
    entries: &mut [LibraryImport],
    written: &mut u64,
) -> u32
    ensures { HandsOutList (Numbered result_number (StepsLibraryImports
        (map_of names.now.view.now)
        (entry_size (names.now.view.now.image.now.width == 64)) names.now.view.now.bytes.now))
        result walk.old walk.new entries.old entries.new written.old written.new }
{
    let mut near = NearLibraryImports {
        names: *names,
        walk: *walk,
        hints: NO_WINDOW,
        kept: NO_SECTIONS,
    };
    let number = hand_out_list(&InLibraries, &mut near, entries, written);
    *walk = near.walk;
    number
}
