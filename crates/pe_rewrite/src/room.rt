//! Where resources go that have no room in place: to the end of the image, into a new section or into their own if it is the
//! last. What follows the data of the sections in the file, an installer's data or COFF symbols, moves after it. See Microsoft's
//! [section table](https://learn.microsoft.com/windows/win32/debug/pe-format#section-table-section-headers).

ghost use Rattle.std.specs.Prelude.{◌≡◌, ◌+◌, ◌*◌, ◌/◌, ◌^◌, ◌<◌, ◌≤◌, ◌&&◌, true, [], ◌∷◌, IfOk, length};
ghost use Rattle.std.specs.List.{list_all};
ghost use Rattle.pe_core.specs.Header.{header_view};
ghost use Rattle.pe_core.specs.Rows.{each};
ghost use Rattle.pe_core.specs.Refusals.{outcome};
ghost use Rattle.pe_core.specs.Sections.{raw_end, sections_offset};
ghost use Rattle.pe_edit.specs.Views.{leaf_views};
ghost use Rattle.pe_rewrite.specs.Places.{debug_entries, headers_end, length_at};
ghost use Rattle.pe_rewrite.specs.Rooms.{are_u32, are_zeros, count_with, data_end, data_moves, debug_moves, ends_data, enlarged, entries_lie, entry_moves, has_header, image_end, is_before, is_before_or_same, is_last, is_u32, later_end, sizes_of, moved, new_header, new_room, new_section, own_room, own_section, room_at, room_beside, room_of, room_tests, room_with, rvas_tests, symbols_move, table_end};
ghost use Rattle.pe_rewrite.specs.RewriteRefusals.{DebugData, NoHeaderRoom, Overlap, RewriteReturns, ImageTooLarge};

use crate::debug::{
    ADDRESS_OF_RAW_DATA, DebugEntries, POINTER_TO_RAW_DATA, SIZE_OF_DATA, SIZE_OF_DEBUG_ENTRY,
    debug_entries,
};
use crate::error::RewriteError;
use crate::place::{
    PAGE, Place, SECTOR, SIZE_OF_SECTION_HEADER, SIZE_OF_SYMBOL, Target, are_outside, find_target,
    headers_end, pages_end, raw_end, require_alone, require_headers, section_header, section_index,
};
use crate::relocation::{Rvas, require_unrelocated};
use pe_core::{Header, SectionTable, read_u32, read_u64, rounded_up};
use pe_edit::{Leaves, section_len};

/// `.rsrc`, and the flags of its section: initialized data that can be read.
const NAME: [u8; 8] = *b".rsrc\0\0\0";

/// The PE signature starts after the DOS header.
const SIZE_OF_DOS_HEADER: u32 = 64;

const CHARACTERISTICS: u32 = 0x4000_0040;

/// A section that is the last of the image, or shall be, and how much larger its data have to be.
#[derive(Clone, Copy)]
pub struct LastSection {
    /// Its index, the number of sections if it is a new one.
    pub index: usize,
    /// Its header, as it is; a new one has no data.
    pub section: SectionTable,
    /// How many bytes of data it needs more, a multiple of the file alignment.
    pub more: usize,
    /// The debug entries, whose data move if they are after it.
    pub debug: DebugEntries,
}

/// Room for the resources at the end of the image; or none for the resource section, where that goes.
#[derive(Clone, Copy)]
pub struct Room {
    /// The place of the resources, once there is room for them.
    pub place: Place,
    /// The file offset from which on the bytes of the file move.
    pub end: usize,
    /// By how many bytes they move: as many are put in there, or go where the section goes.
    pub more: usize,
    /// The debug entries, whose pointers into these bytes move with them.
    pub debug: DebugEntries,
    /// Fields of the headers that change.
    pub number_of_sections: u16,
    pub pointer_to_symbol_table: u32,
    pub size_of_initialized_data: u32,
    pub size_of_image: u32,
}

/// The numbers that change with the section.
#[derive(Clone, Copy)]
pub struct Sizes {
    /// Where its data end.
    data_end: usize,
    /// Fields of the headers.
    pointer_to_symbol_table: usize,
    size_of_initialized_data: usize,
    size_of_image: usize,
}

/// The length of the section with these leaves. Error: `Leaves`.
fn resources_len(leaves: &Leaves<'_>, rva: u32) -> Result<usize, RewriteError>
    ensures value { RewriteReturns result (length_at rva (leaf_views leaves.now)) }
    ensures small { IfOk result (λ n. n < 2 ^ 32) }
{
    let length = section_len(leaves, rva)?;
    Ok(length)
}

/// The resource section, which has this index, with room for resources of `size` bytes.
pub fn own_section(
    bytes: &[u8],
    header: &Header<'_>,
    target: &Target,
    size: usize,
    index: usize,
) -> LastSection
    requires inside { headers_end (header_view header.now) ≤ length bytes.now }
    requires below { index < header.now.coff_header.number_of_sections }
    requires some { 0 < target.now.file_alignment }
    requires small { size < 2 ^ 32 }
    ensures value { result ≡ own_section bytes.now (header_view header.now) target.now size index }
    ensures most { result.more < 2 ^ 33 }
    ensures count { result.debug.count < 2 ^ 32 }
{
    let section = section_header(bytes, header, index);
    let missing = size.saturating_sub(section.size_of_raw_data as usize);
    LastSection {
        index,
        section,
        more: rounded_up(missing, target.file_alignment as usize),
        debug: debug_entries(bytes, header, target),
    }
}

/// The file offset at which the section's data end, or `end` if that is later or there are no data.
fn later_end(end: usize, section: &SectionTable) -> usize
    ensures { result ≡ later_end end section.now }
{
    if section.size_of_raw_data == 0 {
        end
    } else {
        end.max(raw_end(section))
    }
}

/// The file offset at which the headers and the data of all sections end.
#[tactic(auto, using(pe_sign::proofs::Sums::fold_each), unfolding(pe_core::specs::Rows::each))]
fn data_end(bytes: &[u8], header: &Header<'_>, target: &Target) -> usize
    requires { headers_end (header_view header.now) ≤ length bytes.now }
    ensures { result ≡ data_end bytes.now (header_view header.now) target.now }
{
    let mut end = target.size_of_headers as usize;
    for index in 0..header.coff_header.number_of_sections as usize {
        end = later_end(end, &section_header(bytes, header, index));
    }
    end
}

/// The RVA after the image.
fn image_end(target: &Target) -> usize
    requires { 0 < target.now.section_alignment }
    ensures { result ≡ image_end target.now }
{
    rounded_up(
        target.size_of_image as usize,
        target.section_alignment as usize,
    )
}

/// The header of a new section without data.
fn new_header(rva: u32, offset: u32) -> SectionTable
    ensures { result ≡ new_header rva offset }
{
    SectionTable {
        name: NAME,
        virtual_size: 0,
        virtual_address: rva,
        size_of_raw_data: 0,
        pointer_to_raw_data: offset,
        pointer_to_relocations: 0,
        pointer_to_linenumbers: 0,
        number_of_relocations: 0,
        number_of_linenumbers: 0,
        characteristics: CHARACTERISTICS,
    }
}

/// The file offset of the section header with this index.
pub fn row_offset(header: &Header<'_>, index: usize) -> usize
    requires { index ≤ header.now.coff_header.number_of_sections }
    ensures value { result ≡ sections_offset (header_view header.now) + 40 * index }
    ensures small { result < 2 ^ 33 }
{
    let after = header.coff_header.number_of_sections as usize - index;
    headers_end(header) - SIZE_OF_SECTION_HEADER * after
}

/// How many sections there are with the one that has this index.
fn count_with(header: &Header<'_>, index: usize) -> usize
    requires { index ≤ header.now.coff_header.number_of_sections }
    ensures value { result ≡ count_with (header_view header.now) index }
    ensures small { result ≤ 65536 }
{
    (header.coff_header.number_of_sections as usize).max(index + 1)
}

/// Where the section table ends with it.
fn table_end(header: &Header<'_>, index: usize) -> usize
    requires { index ≤ header.now.coff_header.number_of_sections }
    ensures { result ≡ table_end (header_view header.now) index }
{
    row_offset(header, 0) + SIZE_OF_SECTION_HEADER * count_with(header, index)
}

/// A file offset after `more` bytes were put in at `end`.
pub fn moved(end: usize, more: usize, offset: u32) -> usize
    requires { more < 2 ^ 33 }
    ensures { result ≡ moved end more offset }
{
    let offset = offset as usize;
    if offset < end { offset } else { offset + more }
}

/// The numbers that change, for resources of `size` bytes.
fn sizes_of(header: &Header<'_>, target: &Target, size: usize, last: &LastSection) -> Sizes
    requires some { 0 < target.now.section_alignment }
    requires small { size < 2 ^ 32 }
    requires more { last.now.more < 2 ^ 33 }
    ensures { result ≡ sizes_of (header_view header.now) target.now size last.now }
{
    let end = raw_end(&last.section);
    let symbols = header.coff_header.pointer_to_symbol_table;
    let image_end = last.section.virtual_address as usize + size;
    Sizes {
        data_end: end + last.more,
        pointer_to_symbol_table: moved(end, last.more, symbols),
        size_of_initialized_data: target.size_of_initialized_data as usize + last.more,
        size_of_image: (target.size_of_image as usize).max(rounded_up(
            image_end,
            target.section_alignment as usize,
        )),
    }
}

/// Whether a number has 32 bits.
fn is_u32(n: usize) -> bool
    ensures { result ≡ is_u32 n }
{
    n < 1 << 32
}

/// Whether all of them have 32 bits.
fn are_u32(sizes: &Sizes) -> bool
    ensures { result ≡ are_u32 sizes.now }
{
    is_u32(sizes.data_end)
        && is_u32(sizes.pointer_to_symbol_table)
        && is_u32(sizes.size_of_initialized_data)
        && is_u32(sizes.size_of_image)
}

/// Whether there are 40 bytes of zeros at an offset.
fn are_zeros(bytes: &[u8], offset: usize) -> bool
    requires { offset < 2 ^ 33 }
    ensures { result ≡ are_zeros bytes.now offset }
{
    offset + SIZE_OF_SECTION_HEADER <= bytes.len()
        && read_u64(bytes, offset) == 0
        && read_u64(bytes, offset + 8) == 0
        && read_u64(bytes, offset + 16) == 0
        && read_u64(bytes, offset + 24) == 0
        && read_u64(bytes, offset + 32) == 0
}

/// Whether there is a section header with this index, or room for it.
fn has_header(bytes: &[u8], header: &Header<'_>, target: &Target, index: usize) -> bool
    requires { index ≤ header.now.coff_header.number_of_sections }
    ensures { result ≡ has_header bytes.now (header_view header.now) target.now index }
{
    let end = headers_end(header);
    count_with(header, index) < 65536
        && header.dos_header.pe_pointer >= SIZE_OF_DOS_HEADER
        && (index < header.coff_header.number_of_sections as usize
            || end + SIZE_OF_SECTION_HEADER <= target.size_of_headers as usize
                && are_zeros(bytes, end))
}

/// Whether the section's data start after the headers and at a sector, and end in the file at a multiple of the alignment.
fn ends_data(bytes: &[u8], header: &Header<'_>, target: &Target, last: &LastSection) -> bool
    requires some { 0 < target.now.file_alignment }
    requires index { last.now.index ≤ header.now.coff_header.number_of_sections }
    ensures { result ≡ ends_data bytes.now (header_view header.now) target.now last.now }
{
    let start = last.section.pointer_to_raw_data;
    let end = raw_end(&last.section);
    table_end(header, last.index) <= start as usize
        && start % SECTOR == 0
        && end % target.file_alignment as usize == 0
        && end <= bytes.len()
}

/// Whether the COFF symbols end before the section's data, or start after the end of all data.
fn symbols_move(header: &Header<'_>, last: &LastSection) -> bool
    ensures { result ≡ symbols_move (header_view header.now) last.now }
{
    let start = header.coff_header.pointer_to_symbol_table as usize;
    let count = header.coff_header.number_of_symbol_table as usize;
    start == 0
        || raw_end(&last.section) <= start
        || start + SIZE_OF_SYMBOL * count <= last.section.pointer_to_raw_data as usize
}

/// Whether another section ends before this one, and its data start at `end` or after it.
fn is_before(alignment: u32, end: usize, section: &SectionTable, other: &SectionTable) -> bool
    requires { 0 < alignment }
    ensures { result ≡ is_before alignment end section.now other.now }
{
    let rva = section.virtual_address as usize;
    if other.virtual_address as usize + other.virtual_size as usize > rva {
        return false;
    }
    if other.size_of_raw_data == 0 {
        return true;
    }
    let data_end = rounded_up(raw_end(other), alignment as usize);
    end <= (other.pointer_to_raw_data / SECTOR * SECTOR) as usize
        && data_end <= section.pointer_to_raw_data as usize
        && pages_end(other) <= rva
}

/// Whether the section with index `other` is the last one, or before it.
fn is_before_or_same(
    bytes: &[u8],
    header: &Header<'_>,
    target: &Target,
    last: &LastSection,
    other: usize,
) -> bool
    requires inside { headers_end (header_view header.now) ≤ length bytes.now }
    requires some { 0 < target.now.file_alignment }
    requires index { last.now.index ≤ header.now.coff_header.number_of_sections }
    requires below { other < header.now.coff_header.number_of_sections }
    ensures { result ≡ is_before_or_same bytes.now (header_view header.now) target.now last.now other }
{
    let end = table_end(header, last.index);
    other == last.index
        || is_before(
            target.file_alignment,
            end,
            &last.section,
            &section_header(bytes, header, other),
        )
}

/// `Overlap` if another section is not before the last one.
#[tactic(auto, using(pe_sign::proofs::SectionRows::all_more), unfolding(pe_core::specs::Rows::each))]
fn require_last(
    bytes: &[u8],
    header: &Header<'_>,
    target: &Target,
    last: &LastSection,
) -> Result<(), RewriteError>
    requires inside { headers_end (header_view header.now) ≤ length bytes.now }
    requires some { 0 < target.now.file_alignment }
    requires index { last.now.index ≤ header.now.coff_header.number_of_sections }
    ensures { RewriteReturns result (outcome
        ((is_last bytes.now (header_view header.now) target.now last.now, Overlap) ∷ []) tt) }
{
    for other in 0..header.coff_header.number_of_sections as usize {
        if !is_before_or_same(bytes, header, target, last, other) {
            return Err(RewriteError::Overlap(other));
        }
    }
    Ok(())
}

/// Whether the debug entries lie after the section headers and before the section's data, or there are none.
fn entries_lie(header: &Header<'_>, last: &LastSection) -> bool
    requires index { last.now.index ≤ header.now.coff_header.number_of_sections }
    requires count { last.now.debug.count < 2 ^ 32 }
    ensures { result ≡ entries_lie (header_view header.now) last.now }
{
    let entries = last.debug;
    let end = last.section.pointer_to_raw_data as usize;
    entries.count == 0
        || table_end(header, last.index) <= entries.offset
            && SIZE_OF_DEBUG_ENTRY * entries.count <= end.saturating_sub(entries.offset)
}

/// Whether the data of the debug entry at this offset end before the section's data, or can move with what is after them; and
/// whether they are outside of the section when they are loaded.
fn data_moves(bytes: &[u8], last: &LastSection, entry: usize) -> bool
    requires inside { entry + 28 ≤ length bytes.now }
    requires more { last.now.section.size_of_raw_data + last.now.more < 2 ^ 32 }
    ensures { result ≡ data_moves bytes.now last.now entry }
{
    let start = read_u32(bytes, entry + POINTER_TO_RAW_DATA) as usize;
    let size = read_u32(bytes, entry + SIZE_OF_DATA);
    let rva = read_u32(bytes, entry + ADDRESS_OF_RAW_DATA);
    let can_move = start + size as usize <= last.section.pointer_to_raw_data as usize
        || raw_end(&last.section) <= start && is_u32(start + last.more);
    can_move && are_outside(&enlarged(last), rva, size)
}

/// `DebugData` if the debug entries or their data can't move.
#[tactic(auto, using(pe_sign::proofs::SectionRows::all_more), unfolding(pe_core::specs::Rows::each))]
fn require_debug(bytes: &[u8], header: &Header<'_>, last: &LastSection) -> Result<(), RewriteError>
    requires inside { raw_end last.now.section ≤ length bytes.now }
    requires index { last.now.index ≤ header.now.coff_header.number_of_sections }
    requires more { last.now.section.size_of_raw_data + last.now.more < 2 ^ 32 }
    requires count { last.now.debug.count < 2 ^ 32 }
    ensures { RewriteReturns result (outcome
        ((debug_moves bytes.now (header_view header.now) last.now, DebugData) ∷ []) tt) }
{
    if !entries_lie(header, last) {
        return Err(RewriteError::DebugData(last.debug.offset));
    }
    for index in 0..last.debug.count {
        let entry = last.debug.offset + SIZE_OF_DEBUG_ENTRY * index;
        if !data_moves(bytes, last, entry) {
            return Err(RewriteError::DebugData(entry));
        }
    }
    Ok(())
}

/// The section header with more bytes of data.
fn enlarged(last: &LastSection) -> SectionTable
    requires { last.now.section.size_of_raw_data + last.now.more < 2 ^ 32 }
    ensures { result ≡ enlarged last.now }
{
    let mut section = last.section;
    section.size_of_raw_data += last.more as u32;
    section
}

/// The room that the section makes for resources of `size` bytes.
fn room_at(header: &Header<'_>, target: &Target, size: usize, last: &LastSection) -> Room
    requires some { 0 < target.now.section_alignment }
    requires small { size < 2 ^ 32 }
    requires more { last.now.more < 2 ^ 33 }
    requires index { last.now.index ≤ header.now.coff_header.number_of_sections }
    requires count { count_with (header_view header.now) last.now.index < 65536 }
    requires sizes { are_u32 (sizes_of (header_view header.now) target.now size last.now) ≡ true }
    ensures { result ≡ room_at (header_view header.now) target.now size last.now }
{
    let sizes = sizes_of(header, target, size, last);
    Room {
        place: Place {
            entry: target.entry,
            row: row_offset(header, last.index),
            section: enlarged(last),
            length: size,
        },
        end: raw_end(&last.section),
        more: last.more,
        debug: last.debug,
        number_of_sections: count_with(header, last.index) as u16,
        pointer_to_symbol_table: sizes.pointer_to_symbol_table as u32,
        size_of_initialized_data: sizes.size_of_initialized_data as u32,
        size_of_image: sizes.size_of_image as u32,
    }
}

/// The room that the section makes for resources of `size` bytes, if it can be made. Errors, in order: `NoHeaderRoom`,
/// `ImageTooLarge`, `Section`, `SharedSection`, `Symbols`, `Overlap`, `DebugData`.
#[tactic(auto, using(crate::proofs::Roomy::count_small))]
fn room_with(
    bytes: &[u8],
    header: &Header<'_>,
    target: &Target,
    size: usize,
    last: &LastSection,
) -> Result<Room, RewriteError>
    requires inside { headers_end (header_view header.now) ≤ length bytes.now }
    requires file { 0 < target.now.file_alignment }
    requires memory { 0 < target.now.section_alignment }
    requires small { size < 2 ^ 32 }
    requires more { last.now.more < 2 ^ 33 }
    requires index { last.now.index ≤ header.now.coff_header.number_of_sections }
    requires count { last.now.debug.count < 2 ^ 32 }
    ensures { RewriteReturns result
        (room_with bytes.now (header_view header.now) target.now size last.now) }
{
    if !has_header(bytes, header, target, last.index) {
        return Err(RewriteError::NoHeaderRoom(headers_end(header)));
    }
    if !are_u32(&sizes_of(header, target, size, last)) {
        return Err(RewriteError::ImageTooLarge);
    }
    if !ends_data(bytes, header, target, last) {
        return Err(RewriteError::Section(last.index));
    }
    let room = room_at(header, target, size, last);
    if let Some(optional_header) = &header.optional_header {
        require_alone(&room.place.section, optional_header)?;
    }
    if !symbols_move(header, last) {
        return Err(RewriteError::Symbols(header.coff_header.pointer_to_symbol_table));
    }
    require_last(bytes, header, target, last)?;
    require_debug(bytes, header, last)?;
    Ok(room)
}

/// `SharedSection` if a base relocation changes what is in the section with its data; one that is not read may change the resource
/// section.
fn require_beside(
    bytes: &[u8],
    header: &Header<'_>,
    target: &Target,
    last: &LastSection,
) -> Result<(), RewriteError>
    requires inside { headers_end (header_view header.now) ≤ length bytes.now }
    requires more { last.now.more < 2 ^ 33 }
    ensures { RewriteReturns result
        (outcome (rvas_tests bytes.now (header_view header.now) target.now last.now) tt) }
{
    let start = last.section.virtual_address as usize;
    let size = last.section.size_of_raw_data as usize + last.more;
    let rvas = Rvas {
        start,
        end: start + rounded_up(size, PAGE as usize),
        skips_unread: header.coff_header.number_of_sections as usize <= last.index,
    };
    require_unrelocated(bytes, header, target, &rvas)
}

/// The same as `room_with`, and before it `SharedSection` of a base relocation.
pub fn room_beside(
    bytes: &[u8],
    header: &Header<'_>,
    target: &Target,
    size: usize,
    last: &LastSection,
) -> Result<Room, RewriteError>
    requires inside { headers_end (header_view header.now) ≤ length bytes.now }
    requires file { 0 < target.now.file_alignment }
    requires memory { 0 < target.now.section_alignment }
    requires small { size < 2 ^ 32 }
    requires more { last.now.more < 2 ^ 33 }
    requires index { last.now.index ≤ header.now.coff_header.number_of_sections }
    requires count { last.now.debug.count < 2 ^ 32 }
    ensures { RewriteReturns result
        (room_beside bytes.now (header_view header.now) target.now size last.now) }
{
    require_beside(bytes, header, target, last)?;
    room_with(bytes, header, target, size, last)
}

/// Room for resources of `size` bytes in their own section. Errors: `NoSection`; those of `room_beside`.
fn own_room(
    bytes: &[u8],
    header: &Header<'_>,
    target: &Target,
    size: usize,
) -> Result<Room, RewriteError>
    requires inside { headers_end (header_view header.now) ≤ length bytes.now }
    requires file { 0 < target.now.file_alignment }
    requires memory { 0 < target.now.section_alignment }
    requires small { size < 2 ^ 32 }
    ensures { RewriteReturns result
        (own_room bytes.now (header_view header.now) target.now size) }
{
    let index = section_index(bytes, header, target.rva)?;
    let last = own_section(bytes, header, target, size, index);
    room_beside(bytes, header, target, size, &last)
}

/// Room for the leaves in a new section. Errors: `ImageTooLarge`; `Leaves`; those of `room_beside`.
fn new_room(
    bytes: &[u8],
    header: &Header<'_>,
    target: &Target,
    leaves: &Leaves<'_>,
) -> Result<Room, RewriteError>
    requires inside { headers_end (header_view header.now) ≤ length bytes.now }
    requires file { 0 < target.now.file_alignment }
    requires memory { 0 < target.now.section_alignment }
    ensures { RewriteReturns result
        (new_room bytes.now (header_view header.now) target.now (leaf_views leaves.now)) }
{
    let rva = image_end(target);
    let offset = data_end(bytes, header, target);
    if !is_u32(rva) || !is_u32(offset) {
        return Err(RewriteError::ImageTooLarge);
    }
    let length = resources_len(leaves, rva as u32)?;
    let last = LastSection {
        index: header.coff_header.number_of_sections as usize,
        section: new_header(rva as u32, offset as u32),
        more: rounded_up(length, target.file_alignment as usize),
        debug: debug_entries(bytes, header, target),
    };
    room_beside(bytes, header, target, length, &last)
}

/// Room for the leaves at the end of the image: in their own section, or else in a new one. Errors: those of `write_edited`,
/// but for the buffer's.
pub fn find_room(
    bytes: &[u8],
    header: &Header<'_>,
    leaves: &Leaves<'_>,
) -> Result<Room, RewriteError>
    ensures { RewriteReturns result
        (room_of bytes.now (header_view header.now) (leaf_views leaves.now)) }
{
    let target = find_target(header)?;
    let length = resources_len(leaves, target.rva)?;
    require_headers(bytes, header, &target)?;
    match own_room(bytes, header, &target, length) {
        Ok(room) => Ok(room),
        Err(_) => new_room(bytes, header, &target, leaves),
    }
}
