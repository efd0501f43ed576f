//! Whether the resource section of an image goes where the image has no resources, and what changes then. It goes if it is the last
//! of the image: in the section table, in the file but for what follows the data of all sections, and in memory. See Microsoft's
//! [section table](https://learn.microsoft.com/windows/win32/debug/pe-format#section-table-section-headers).

ghost use Rattle.std.specs.Prelude.{◌≡◌, ◌+◌, ◌*◌, ◌^◌, ◌<◌, ◌≤◌, true, [], ◌∷◌, length};
ghost use Rattle.std.specs.List.{list_all};
ghost use Rattle.pe_core.specs.Header.{header_view};
ghost use Rattle.pe_core.specs.Refusals.{outcome};
ghost use Rattle.pe_core.specs.Rows.{each};
ghost use Rattle.pe_rewrite.specs.Places.{headers_end};
ghost use Rattle.pe_rewrite.specs.Removals.{data_before, debug_before, emptied_of, ends_image, ends_table, gone_at, gone_of, gone_tests, gone_with, moved_back, no_header};
ghost use Rattle.pe_rewrite.specs.RewriteRefusals.{DebugData, RewriteReturns};

use crate::debug::{POINTER_TO_RAW_DATA, SIZE_OF_DATA, SIZE_OF_DEBUG_ENTRY};
use crate::error::RewriteError;
use crate::place::{PAGE, Place, Target, place_at, raw_end, section_index};
use crate::room::{LastSection, Room, own_section, room_beside, row_offset};
use pe_core::{Header, SectionTable, read_u32, rounded_up};

/// Whether the section is the last of the section table, and not the only one.
fn ends_table(header: &Header<'_>, last: &LastSection) -> bool
    requires { last.now.index ≤ header.now.coff_header.number_of_sections }
    ensures { result ≡ ends_table (header_view header.now) last.now }
{
    let count = header.coff_header.number_of_sections as usize;
    last.index + 1 == count && last.index > 0
}

/// Whether the image ends in memory with the pages of the section's data.
fn ends_image(target: &Target, last: &LastSection) -> bool
    requires { 0 < target.now.section_alignment }
    ensures { result ≡ ends_image target.now last.now }
{
    let start = last.section.virtual_address as usize;
    let size = last.section.size_of_raw_data as usize;
    let end = start + rounded_up(size, PAGE as usize);
    target.size_of_image as usize <= rounded_up(end, target.section_alignment as usize)
}

/// Whether the data of the debug entry with this index end before the section's data.
fn data_before(bytes: &[u8], last: &LastSection, index: usize) -> bool
    requires below { index < last.now.debug.count }
    requires count { last.now.debug.count < 2 ^ 32 }
    requires inside { last.now.debug.offset + 28 * last.now.debug.count ≤ length bytes.now }
    ensures { result ≡ data_before bytes.now last.now index }
{
    let entry = last.debug.offset + SIZE_OF_DEBUG_ENTRY * index;
    let start = read_u32(bytes, entry + POINTER_TO_RAW_DATA) as usize;
    let size = read_u32(bytes, entry + SIZE_OF_DATA) as usize;
    start + size <= last.section.pointer_to_raw_data as usize
}

/// `DebugData` if the data of a debug entry are after the section.
#[tactic(auto, using(pe_sign::proofs::SectionRows::all_more), unfolding(pe_core::specs::Rows::each))]
fn require_debug_before(bytes: &[u8], last: &LastSection) -> Result<(), RewriteError>
    requires count { last.now.debug.count < 2 ^ 32 }
    requires inside { 0 < last.now.debug.count →
        last.now.debug.offset + 28 * last.now.debug.count ≤ length bytes.now }
    ensures { RewriteReturns result (outcome
        ((debug_before bytes.now last.now, DebugData) ∷ []) tt) }
{
    for index in 0..last.debug.count {
        if !data_before(bytes, last, index) {
            return Err(RewriteError::DebugData(last.debug.offset + SIZE_OF_DEBUG_ENTRY * index));
        }
    }
    Ok(())
}

/// Whether the section can go. Errors, in order: `Section`, `SharedSection`, `DebugData`.
fn require_end(
    bytes: &[u8],
    header: &Header<'_>,
    target: &Target,
    last: &LastSection,
) -> Result<(), RewriteError>
    requires index { last.now.index ≤ header.now.coff_header.number_of_sections }
    requires memory { 0 < target.now.section_alignment }
    requires count { last.now.debug.count < 2 ^ 32 }
    requires inside { 0 < last.now.debug.count →
        last.now.debug.offset + 28 * last.now.debug.count ≤ length bytes.now }
    ensures { RewriteReturns result (outcome
        (gone_tests bytes.now (header_view header.now) target.now last.now) tt) }
{
    if !ends_table(header, last) {
        return Err(RewriteError::Section(last.index));
    }
    if !ends_image(target, last) {
        return Err(RewriteError::SharedSection(last.section.virtual_address));
    }
    require_debug_before(bytes, last)
}

/// The header of no section.
fn no_header() -> SectionTable
    ensures { result ≡ no_header }
{
    SectionTable {
        name: [0; 8],
        virtual_size: 0,
        virtual_address: 0,
        size_of_raw_data: 0,
        pointer_to_raw_data: 0,
        pointer_to_relocations: 0,
        pointer_to_linenumbers: 0,
        number_of_relocations: 0,
        number_of_linenumbers: 0,
        characteristics: 0,
    }
}

/// A file offset after `less` bytes before `end` have gone.
fn moved_back(end: usize, less: u32, offset: u32) -> u32
    ensures { result ≡ moved_back end less offset }
{
    if (offset as usize) < end {
        offset
    } else {
        offset.saturating_sub(less)
    }
}

/// What changes when the section goes.
fn gone_at(header: &Header<'_>, target: &Target, last: &LastSection) -> Room
    requires { last.now.index < header.now.coff_header.number_of_sections }
    ensures { result ≡ gone_at (header_view header.now) target.now last.now }
{
    let size = last.section.size_of_raw_data;
    let symbols = header.coff_header.pointer_to_symbol_table;
    Room {
        place: Place {
            entry: target.entry,
            row: row_offset(header, last.index),
            section: no_header(),
            length: 0,
        },
        end: last.section.pointer_to_raw_data as usize,
        more: size as usize,
        debug: last.debug,
        number_of_sections: last.index as u16,
        pointer_to_symbol_table: moved_back(raw_end(&last.section), size, symbols),
        size_of_initialized_data: target.size_of_initialized_data.saturating_sub(size),
        size_of_image: last.section.virtual_address,
    }
}

/// What changes when this section, which has the resources, goes.
fn gone_with(
    bytes: &[u8],
    header: &Header<'_>,
    target: &Target,
    last: &LastSection,
) -> Result<Room, RewriteError>
    requires inside { headers_end (header_view header.now) ≤ length bytes.now }
    requires file { 0 < target.now.file_alignment }
    requires memory { 0 < target.now.section_alignment }
    requires more { last.now.more < 2 ^ 33 }
    requires index { last.now.index < header.now.coff_header.number_of_sections }
    requires count { last.now.debug.count < 2 ^ 32 }
    ensures { RewriteReturns result
        (gone_with bytes.now (header_view header.now) target.now last.now) }
{
    room_beside(bytes, header, target, 0, last)?;
    require_end(bytes, header, target, last)?;
    Ok(gone_at(header, target, last))
}

/// What changes when the resource section goes, if it can. Its errors are seen by nobody.
pub fn find_gone(bytes: &[u8], header: &Header<'_>, target: &Target) -> Result<Room, RewriteError>
    requires inside { headers_end (header_view header.now) ≤ length bytes.now }
    requires file { 0 < target.now.file_alignment }
    requires memory { 0 < target.now.section_alignment }
    ensures { RewriteReturns result (gone_of bytes.now (header_view header.now) target.now) }
{
    let index = section_index(bytes, header, target.rva)?;
    let last = own_section(bytes, header, target, 0, index);
    gone_with(bytes, header, target, &last)
}

/// The place of the resources, if it can be written over with zeros. Its errors are seen by nobody.
pub fn find_emptied(
    bytes: &[u8],
    header: &Header<'_>,
    target: &Target,
) -> Result<Place, RewriteError>
    requires inside { headers_end (header_view header.now) ≤ length bytes.now }
    requires file { 0 < target.now.file_alignment }
    ensures { RewriteReturns result (emptied_of bytes.now (header_view header.now) target.now) }
{
    let index = section_index(bytes, header, target.rva)?;
    place_at(bytes, header, *target, index, 0)
}
