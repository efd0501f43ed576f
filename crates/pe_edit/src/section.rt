//! A resource section from its leaves. See Microsoft's
//! [.rsrc section](https://learn.microsoft.com/windows/win32/debug/pe-format#the-rsrc-section). A caller puts the bytes at
//! the RVA that they were written for, and names that RVA and their number in the resource directory's entry.

ghost use Rattle.std.specs.Prelude.{◌≡◌, ◌≤◌, [], ◌∷◌, length};
ghost use Rattle.std.specs.List.{list_all};
ghost use Rattle.pe_core.specs.Bytes.{splice};
ghost use Rattle.pe_core.specs.Refusals.{outcome};
ghost use Rattle.pe_edit.specs.EditRefusals.{EditReturns, EditReturnsWritten, Name, Order, leaf_tests, length_of, section_of, written};
ghost use Rattle.pe_edit.specs.Levels.{measured_of};
ghost use Rattle.pe_edit.specs.Sorted.{is_sorted};
ghost use Rattle.pe_edit.specs.Views.{leaf_views};
ghost use Rattle.pe_edit.specs.Written.{Accepted, layout_of, names_fit, section, section_length};

use crate::directories::{Cursor, HIGH_BIT, set_directories, set_directory};
use crate::error::EditError;
use crate::layout::{Layout, contents_end};
use crate::leaves::Leaves;
use crate::level::Level;
use crate::put::{set_contents, set_data_entries, set_names};
use pe_core::{require_room, set_zeros};

/// A directory has at most this many entries.
const MOST: usize = 65_535;

/// `Name` if the type or the name of a resource doesn't fit.
#[tactic(auto, using(crate::proofs::Tests::one_unfit, crate::proofs::Tests::more_fit, crate::proofs::Tests::all_fit))]
fn require_names(leaves: &Leaves<'_>) -> Result<(), EditError>
    ensures { EditReturns result (outcome ((list_all names_fit (leaf_views leaves.now), Name) ∷ []) tt) }
{
    let count = leaves.len();
    for index in 0..count {
        if !leaves.at(index).fits() {
            return Err(EditError::Name(index));
        }
    }
    Ok(())
}

/// `Order` if a resource does not come after the one before it.
#[tactic(auto, using(crate::proofs::Tests::one_unsorted, crate::proofs::Tests::more_sorted, crate::proofs::Tests::all_sorted))]
fn require_order(leaves: &Leaves<'_>) -> Result<(), EditError>
    ensures { EditReturns result (outcome ((is_sorted (leaf_views leaves.now), Order) ∷ []) tt) }
{
    let count = leaves.len();
    let mut index = 1;
    while index < count {
        if !leaves.at(index - 1).is_before(&leaves.at(index)) {
            return Err(EditError::Order(index));
        }
        index += 1;
    }
    Ok(())
}

/// The layout of a section, and its length.
#[derive(Clone, Copy)]
pub struct Measured {
    layout: Layout,
    length: usize,
}

/// The layout of the section with these leaves, and its length. Errors: those of `section_len`, in order.
fn section_layout(leaves: &Leaves<'_>, rva: u32) -> Result<Measured, EditError>
    ensures { EditReturns result
        (outcome (leaf_tests rva (leaf_views leaves.now)) (measured_of (leaf_views leaves.now))) }
{
    let count = leaves.len();
    if count > MOST {
        return Err(EditError::TooMany(count));
    }
    require_names(leaves)?;
    require_order(leaves)?;
    let layout = Layout::of(leaves);
    if layout.contents >= HIGH_BIT {
        return Err(EditError::TablesTooLarge(layout.contents));
    }
    match contents_end(rva as usize + layout.contents, leaves) {
        Some(end) => Ok(Measured {
            layout,
            length: end - rva as usize,
        }),
        None => Err(EditError::TooLarge),
    }
}

/// Writes the section at the start of the buffer.
fn set_section(out: &mut [u8], layout: Layout, leaves: &Leaves<'_>, rva: u32)
    requires layout { layout ≡ layout_of (leaf_views leaves.now) }
    requires fits { Accepted rva (leaf_views leaves.now) }
    requires room { section_length (leaf_views leaves.now) ≤ length out.old }
    ensures { out.new ≡ splice out.old 0 (section rva (leaf_views leaves.now)) }
{
    let first = Cursor {
        end: 0,
        name: layout.type_names,
        part: HIGH_BIT + layout.types,
    };
    let types = Cursor {
        end: layout.types,
        name: layout.names,
        part: HIGH_BIT + layout.languages,
    };
    let languages = Cursor {
        end: layout.languages,
        name: 0,
        part: layout.entries,
    };
    set_directory(out, Level::Types, leaves, first);
    set_directories(out, Level::Names, leaves, types);
    set_directories(out, Level::Languages, leaves, languages);
    set_data_entries(out, layout.entries, leaves, rva as usize + layout.contents);
    set_names(out, layout.type_names, Level::Types, leaves);
    set_names(out, layout.names, Level::Names, leaves);
    set_zeros(out, layout.names_end, layout.contents - layout.names_end);
    set_contents(out, layout.contents, leaves);
}

/// The length of the section that `write_section` writes with these arguments. Errors: those of `write_section`, but for
/// the buffer's.
#[tactic(auto, using(crate::proofs::Results::length_returned))]
pub fn section_len(leaves: &Leaves<'_>, rva: u32) -> Result<usize, EditError>
    ensures { EditReturns result (length_of (section_of rva (leaf_views leaves.now))) }
{
    let measured = section_layout(leaves, rva)?;
    Ok(measured.length)
}

/// Writes the resource section with these leaves at the start of `out`, to be mapped at `rva`. Returns its length; the bytes
/// of `out` after it stay as they were. Leaves are sorted by type, name and language: names before ids, names by their code
/// units, ids and languages by their numbers.
///
/// Errors, in this order, each of which leaves `out` as it was:
/// - `TooMany` if there are more than 65,535 leaves;
/// - `Name` if a type or name has an odd number of bytes, or more than 65,535 code units;
/// - `Order` if a leaf is not sorted after the one before it, or has the same type, name and language;
/// - `TablesTooLarge` if directories, data entries and names have 2^31 bytes or more;
/// - `TooLarge` if the section ends at the RVA 2^32 or after it;
/// - `Image` with `WriteFit` if the section does not fit into `out`.
#[tactic(auto, using(crate::proofs::Results::accepted_by, crate::proofs::Results::written_done, crate::proofs::Results::written_short))]
pub fn write_section(leaves: &Leaves<'_>, rva: u32, out: &mut [u8]) -> Result<usize, EditError>
    ensures { EditReturnsWritten result
        (written (section_of rva (leaf_views leaves.now)) out.old) out.old out.new }
{
    let measured = section_layout(leaves, rva)?;
    require_room(out, 0, measured.length)?;
    set_section(out, measured.layout, leaves, rva);
    Ok(measured.length)
}
