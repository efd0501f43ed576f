//! The debug entries of an image and their data, which an edit does not write over. See Microsoft's
//! [debug directory](https://learn.microsoft.com/windows/win32/debug/pe-format#debug-directory-image-only).

ghost use Rattle.std.specs.Prelude.{◌≡◌, ◌+◌, ◌^◌, ◌<◌, ◌≤◌, [], ◌∷◌, length};
ghost use Rattle.std.specs.List.{list_all};
ghost use Rattle.pe_core.specs.Header.{header_view};
ghost use Rattle.pe_core.specs.Rows.{each};
ghost use Rattle.pe_core.specs.Refusals.{outcome};
ghost use Rattle.pe_core.specs.Sections.{raw_end};
ghost use Rattle.pe_rewrite.specs.Places.{debug_apart, debug_data_apart, debug_entries, entries_apart, entries_by, entry_apart, headers_end};
ghost use Rattle.pe_rewrite.specs.RewriteRefusals.{DebugData, RewriteReturns};

use crate::directory::{directory_in, offset_of};
use crate::error::RewriteError;
use crate::place::{Target, are_outside, headers_end, raw_end, section_header};
use pe_core::{DataDirectory, Header, SectionTable, read_u32};

/// The index of the debug directory, and the size of its entries in bytes.
const DEBUG_TABLE: usize = 6;

pub const SIZE_OF_DEBUG_ENTRY: usize = 28;

/// The offsets in a debug entry of the size of its data, of their RVA, and of their offset in the file.
pub const SIZE_OF_DATA: usize = 16;

pub const ADDRESS_OF_RAW_DATA: usize = 20;

pub const POINTER_TO_RAW_DATA: usize = 24;

/// The debug entries of an image, of 28 bytes each.
#[derive(Clone, Copy)]
pub struct DebugEntries {
    /// The file offset of the first one.
    pub offset: usize,
    /// How many there are.
    pub count: usize,
}

/// The entries of a directory that the section map leads to this offset; if to none, they are in the headers, of so many bytes, or
/// nowhere.
fn entries_by(offset: Option<usize>, directory: DataDirectory, headers: usize) -> DebugEntries
    ensures value { result ≡ entries_by offset directory headers }
    ensures count { result.count < 2 ^ 32 }
{
    let rva = directory.virtual_address as usize;
    let count = directory.size as usize / SIZE_OF_DEBUG_ENTRY;
    match offset {
        Some(offset) => DebugEntries { offset, count },
        None => DebugEntries {
            offset: rva,
            count: if rva < headers { count } else { 0 },
        },
    }
}

/// The debug entries of the image.
pub fn debug_entries(bytes: &[u8], header: &Header<'_>, target: &Target) -> DebugEntries
    requires { headers_end (header_view header.now) ≤ length bytes.now }
    ensures value { result ≡ debug_entries bytes.now (header_view header.now) target.now }
    ensures count { result.count < 2 ^ 32 }
{
    let directory = directory_in(header, DEBUG_TABLE);
    let offset = offset_of(
        bytes,
        header,
        target.file_alignment,
        directory.virtual_address,
    );
    entries_by(offset, directory, target.size_of_headers as usize)
}

/// Whether the debug entries lie after the headers and outside of the section's data, or there are none.
fn entries_apart(
    bytes: &[u8],
    header: &Header<'_>,
    section: &SectionTable,
    entries: DebugEntries,
) -> bool
    requires { entries.count < 2 ^ 32 }
    ensures { result ≡ entries_apart bytes.now (header_view header.now) section.now entries }
{
    let size = SIZE_OF_DEBUG_ENTRY * entries.count;
    let before = (section.pointer_to_raw_data as usize).saturating_sub(entries.offset);
    let after = bytes.len().saturating_sub(entries.offset);
    entries.count == 0
        || headers_end(header) <= entries.offset
            && (size <= before || raw_end(section) <= entries.offset && size <= after)
}

/// Whether the data of the debug entry at this offset are outside of the section, in the file and when they are loaded.
fn debug_data_apart(bytes: &[u8], section: &SectionTable, entry: usize) -> bool
    requires { entry + 28 ≤ length bytes.now }
    ensures { result ≡ debug_data_apart bytes.now section.now entry }
{
    let start = read_u32(bytes, entry + POINTER_TO_RAW_DATA) as usize;
    let size = read_u32(bytes, entry + SIZE_OF_DATA);
    let is_apart = start + size as usize <= section.pointer_to_raw_data as usize
        || raw_end(section) <= start;
    is_apart && are_outside(section, read_u32(bytes, entry + ADDRESS_OF_RAW_DATA), size)
}

/// `DebugData` if debug entries or their data lie in the section, or the entries in the headers or after the end of the file.
#[tactic(auto, using(pe_sign::proofs::SectionRows::all_more), unfolding(pe_core::specs::Rows::each))]
pub fn require_debug_apart(
    bytes: &[u8],
    header: &Header<'_>,
    section: &SectionTable,
    entries: DebugEntries,
) -> Result<(), RewriteError>
    requires inside { raw_end section.now ≤ length bytes.now }
    requires count { entries.count < 2 ^ 32 }
    ensures { RewriteReturns result (outcome
        ((debug_apart bytes.now (header_view header.now) section.now entries, DebugData) ∷ []) tt) }
{
    if !entries_apart(bytes, header, section, entries) {
        return Err(RewriteError::DebugData(entries.offset));
    }
    for index in 0..entries.count {
        let entry = entries.offset + SIZE_OF_DEBUG_ENTRY * index;
        if !debug_data_apart(bytes, section, entry) {
            return Err(RewriteError::DebugData(entry));
        }
    }
    Ok(())
}
