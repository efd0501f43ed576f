//! Where an image has its resources, and whether others can be put there: the section at whose start the resource
//! directory is, and no other part of the image in it. See Microsoft's
//! [section table](https://learn.microsoft.com/windows/win32/debug/pe-format#section-table-section-headers).

ghost use Rattle.std.specs.Prelude.{◌≡◌, ◌+◌, ◌*◌, ◌^◌, ◌<◌, ◌≤◌, ◌==◌, [], ◌∷◌, IfOk, Some, length};
ghost use Rattle.pe_core.specs.Header.{directories_offset, header_view, optional_header_view};
ghost use Rattle.pe_core.specs.Refusals.{outcome};
ghost use Rattle.pe_core.specs.Sections.{raw_end};
ghost use Rattle.pe_core.specs.declared.optional_header.TheConstants.{MAGIC_64};
ghost use Rattle.pe_edit.specs.Views.{leaf_views};
ghost use Rattle.pe_sign.specs.WrittenHeaders.{directories_end};
ghost use Rattle.pe_rewrite.specs.Edited.{Lies};
ghost use Rattle.pe_rewrite.specs.Places.{are_outside, data_apart, grows_clear, has_data, header_tests, headers_end, index_of, is_alone, is_apart, is_clear, is_outside, leads_out, memory_apart, pages_end, place_at, place_of, relocations_beside, rvas_of, section_header, section_tests, sections_apart, symbols_apart, target_before, target_of};
ghost use Rattle.pe_rewrite.specs.RewriteRefusals.{Overlap, RewriteReturns, SharedSection};

use crate::debug::{debug_entries, require_debug_apart};
use crate::error::RewriteError;
use crate::relocation::{Rvas, require_unrelocated};
use pe_core::{
    DataDirectory, Error, Header, MAGIC_64, OptionalHeader, Reason, SectionTable, require_bytes,
    rounded_up,
};
use pe_edit::{Leaves, section_len};

/// The size of a section header in bytes.
pub const SIZE_OF_SECTION_HEADER: usize = 40;

/// The size of an entry of the data directories in bytes.
pub const SIZE_OF_ENTRY: usize = 8;

/// The size of a COFF symbol in bytes.
pub const SIZE_OF_SYMBOL: usize = 18;

/// The index of the resource directory, and of that of the certificates.
const RESOURCE_TABLE: usize = 2;

const CERTIFICATE_TABLE: usize = 4;

/// The parts of sections that are mapped: pages in memory, sectors in the file.
pub const PAGE: u32 = 4096;

pub const SECTOR: u32 = 512;

/// What is known of the resources by the optional header.
#[derive(Clone, Copy)]
pub struct Target {
    /// The file offset of the entry of their directory, and their RVA.
    pub entry: usize,
    pub rva: u32,
    pub section_alignment: u32,
    pub file_alignment: u32,
    pub size_of_image: u32,
    pub size_of_headers: u32,
    pub size_of_initialized_data: u32,
}

/// The place of the resources.
#[derive(Clone, Copy)]
pub struct Place {
    /// The file offset of the entry of their directory.
    pub entry: usize,
    /// The file offset of the header of their section.
    pub row: usize,
    /// That header.
    pub section: SectionTable,
    /// The length of the resources that are written there.
    pub length: usize,
}

/// The file offset of the data directories in an image with this PE pointer.
fn directories_start(pointer: u32, optional_header: &OptionalHeader) -> usize
    ensures value { result ≡ pointer + 24
        + directories_offset (optional_header.now.standard_fields.magic == MAGIC_64) }
    ensures small { result < 2 ^ 33 }
{
    let fields = if optional_header.standard_fields.magic == MAGIC_64 {
        112
    } else {
        96
    };
    pointer as usize + 24 + fields
}

/// The file offset at which the data directories end.
fn directories_end(header: &Header<'_>) -> usize
    ensures { result ≡ directories_end (header_view header.now) }
{
    let pointer = header.dos_header.pe_pointer;
    match &header.optional_header {
        Some(optional_header) => {
            let count = optional_header.data_directories.rows().len();
            directories_start(pointer, optional_header) + SIZE_OF_ENTRY * count
        }
        None => pointer as usize + 24,
    }
}

/// What is known of the resources by this optional header. Errors, in order: `NoDirectory`, `Signed`.
fn target_before(pointer: u32, optional_header: &OptionalHeader) -> Result<Target, RewriteError>
    ensures { RewriteReturns result
        (target_before pointer (Some (optional_header_view optional_header.now))) }
{
    let directories = &optional_header.data_directories;
    let rows = directories.rows();
    if rows.len() <= RESOURCE_TABLE {
        return Err(RewriteError::NoDirectory(rows.len()));
    }
    if directories.get(CERTIFICATE_TABLE).is_some() {
        return Err(RewriteError::Signed);
    }
    Ok(Target {
        entry: directories_start(pointer, optional_header) + SIZE_OF_ENTRY * RESOURCE_TABLE,
        rva: rows[RESOURCE_TABLE].virtual_address,
        section_alignment: optional_header.windows_fields.section_alignment,
        file_alignment: optional_header.windows_fields.file_alignment,
        size_of_image: optional_header.windows_fields.size_of_image,
        size_of_headers: optional_header.windows_fields.size_of_headers,
        size_of_initialized_data: optional_header.standard_fields.size_of_initialized_data,
    })
}

/// What is known of the resources. Errors, in order: `Image` with `NoOptionalHeader`; `NoDirectory`; `Signed`.
pub fn find_target(header: &Header<'_>) -> Result<Target, RewriteError>
    ensures { RewriteReturns result (target_of (header_view header.now)) }
{
    match &header.optional_header {
        Some(optional_header) => target_before(header.dos_header.pe_pointer, optional_header),
        None => Err(RewriteError::Image(Error::Malformed(Reason::NoOptionalHeader))),
    }
}

/// The file offset at which the section table ends.
pub fn headers_end(header: &Header<'_>) -> usize
    ensures value { result ≡ headers_end (header_view header.now) }
    ensures small { result < 2 ^ 33 }
{
    header.sections_offset()
        + SIZE_OF_SECTION_HEADER * header.coff_header.number_of_sections as usize
}

/// Errors, in order: `Headers`; `Image` with `Short`; `Alignment`.
pub fn require_headers(
    bytes: &[u8],
    header: &Header<'_>,
    target: &Target,
) -> Result<(), RewriteError>
    ensures { RewriteReturns result
        (outcome (header_tests bytes.now (header_view header.now) target.now) tt) }
{
    let start = header.sections_offset();
    if directories_end(header) > start {
        return Err(RewriteError::Headers(start));
    }
    require_bytes(bytes, 0, headers_end(header))?;
    if target.section_alignment < PAGE {
        return Err(RewriteError::Alignment(target.section_alignment));
    }
    let alignment = target.file_alignment;
    if alignment < SECTOR || !alignment.is_power_of_two() {
        return Err(RewriteError::Alignment(alignment));
    }
    Ok(())
}

/// The section header with this index.
pub fn section_header(bytes: &[u8], header: &Header<'_>, index: usize) -> SectionTable
    requires inside { headers_end (header_view header.now) ≤ length bytes.now }
    requires below { index < header.now.coff_header.number_of_sections }
    ensures { result ≡ section_header bytes.now (header_view header.now) index }
{
    SectionTable::at(
        bytes,
        header.sections_offset() + SIZE_OF_SECTION_HEADER * index,
    )
}

/// The index of the first section that starts at this RVA. Error: `NoSection`, also at RVA 0, where no resources are.
pub fn section_index(bytes: &[u8], header: &Header<'_>, rva: u32) -> Result<usize, RewriteError>
    requires { headers_end (header_view header.now) ≤ length bytes.now }
    ensures { RewriteReturns result (index_of bytes.now (header_view header.now) rva) }
{
    if rva == 0 {
        return Err(RewriteError::NoSection(rva));
    }
    for index in 0..header.coff_header.number_of_sections as usize {
        if section_header(bytes, header, index).virtual_address == rva {
            return Ok(index);
        }
    }
    Err(RewriteError::NoSection(rva))
}

/// The file offset at which the section's data end.
pub fn raw_end(section: &SectionTable) -> usize
    ensures value { result ≡ raw_end section.now }
    ensures small { result < 2 ^ 33 }
{
    section.pointer_to_raw_data as usize + section.size_of_raw_data as usize
}

/// The end of the RVAs that the section's data can have.
pub fn pages_end(section: &SectionTable) -> usize
    ensures { result ≡ pages_end section.now }
{
    section.virtual_address as usize + rounded_up(section.size_of_raw_data as usize, PAGE as usize)
}

/// Whether the section's data start after the headers and at a sector, and end in the file.
fn has_data(bytes: &[u8], header: &Header<'_>, section: &SectionTable) -> bool
    ensures { result ≡ has_data bytes.now (header_view header.now) section.now }
{
    let start = section.pointer_to_raw_data;
    headers_end(header) <= start as usize && start % SECTOR == 0 && raw_end(section) <= bytes.len()
}

/// Whether an RVA is outside of the section.
pub fn is_outside(section: &SectionTable, rva: u32) -> bool
    ensures { result ≡ is_outside section.now rva }
{
    rva < section.virtual_address || pages_end(section) <= rva as usize
}

/// Whether as many bytes from an RVA on lie outside of the section, or are not loaded.
pub fn are_outside(section: &SectionTable, rva: u32, size: u32) -> bool
    ensures { result ≡ are_outside section.now rva size }
{
    pages_end(section) <= rva as usize
        || rva < section.virtual_address
            && (rva == 0 || rva as usize + size as usize <= section.virtual_address as usize)
}

/// Whether a directory leads out of the section, or may lead into it.
fn leads_out(section: &SectionTable, directories: &[DataDirectory], index: usize) -> bool
    requires { index < length directories.now }
    ensures { result ≡ leads_out section.now directories.now index }
{
    let directory = directories[index];
    index == RESOURCE_TABLE
        || index == CERTIFICATE_TABLE
        || directory.virtual_address == 0 && directory.size == 0
        || is_outside(section, directory.virtual_address)
}

/// `SharedSection` if the entry point or a directory leads into the section.
#[tactic(auto, using(pe_sign::proofs::SectionRows::all_more), unfolding(pe_core::specs::Rows::each))]
pub fn require_alone(
    section: &SectionTable,
    optional_header: &OptionalHeader,
) -> Result<(), RewriteError>
    ensures { RewriteReturns result (outcome
        ((is_alone section.now (Some (optional_header_view optional_header.now)), SharedSection) ∷ []) tt) }
{
    let entry_point = optional_header.standard_fields.address_of_entry_point;
    if !is_outside(section, entry_point) {
        return Err(RewriteError::SharedSection(entry_point));
    }
    let rows = optional_header.data_directories.rows();
    for index in 0..rows.len() {
        if !leads_out(section, rows, index) {
            return Err(RewriteError::SharedSection(rows[index].virtual_address));
        }
    }
    Ok(())
}

/// Whether the COFF symbols are outside of the section's data.
fn symbols_apart(header: &Header<'_>, section: &SectionTable) -> bool
    ensures { result ≡ symbols_apart (header_view header.now) section.now }
{
    let start = header.coff_header.pointer_to_symbol_table as usize;
    let count = header.coff_header.number_of_symbol_table as usize;
    start == 0
        || raw_end(section) <= start
        || start + SIZE_OF_SYMBOL * count <= section.pointer_to_raw_data as usize
}

/// Whether another section shares no byte of the file and no page with this one, and none with the headers.
fn data_apart(
    header: &Header<'_>,
    alignment: u32,
    section: &SectionTable,
    other: &SectionTable,
) -> bool
    requires { 0 < alignment }
    ensures { result ≡ data_apart alignment (header_view header.now) section.now other.now }
{
    if other.size_of_raw_data == 0 {
        return true;
    }
    let start = (other.pointer_to_raw_data / SECTOR * SECTOR) as usize;
    let end = rounded_up(raw_end(other), alignment as usize);
    headers_end(header) <= start
        && (end <= section.pointer_to_raw_data as usize || raw_end(section) <= start)
        && (pages_end(other) <= section.virtual_address as usize
            || pages_end(section) <= other.virtual_address as usize)
}

/// Whether the section `other` is the one with this index, or apart from it.
fn is_apart(bytes: &[u8], header: &Header<'_>, alignment: u32, index: usize, other: usize) -> bool
    requires inside { headers_end (header_view header.now) ≤ length bytes.now }
    requires below { index < header.now.coff_header.number_of_sections }
    requires other { other < header.now.coff_header.number_of_sections }
    requires some { 0 < alignment }
    ensures { result ≡ is_apart bytes.now (header_view header.now) alignment index other }
{
    let section = section_header(bytes, header, index);
    other == index
        || data_apart(
            header,
            alignment,
            &section,
            &section_header(bytes, header, other),
        )
}

/// `Overlap` if another section shares bytes or pages with the one that has this index.
#[tactic(auto, using(pe_sign::proofs::SectionRows::all_more), unfolding(pe_core::specs::Rows::each))]
fn require_apart(
    bytes: &[u8],
    header: &Header<'_>,
    alignment: u32,
    index: usize,
) -> Result<(), RewriteError>
    requires inside { headers_end (header_view header.now) ≤ length bytes.now }
    requires below { index < header.now.coff_header.number_of_sections }
    requires some { 0 < alignment }
    ensures { RewriteReturns result (outcome
        ((sections_apart bytes.now (header_view header.now) alignment index, Overlap) ∷ []) tt) }
{
    for other in 0..header.coff_header.number_of_sections as usize {
        if !is_apart(bytes, header, alignment, index, other) {
            return Err(RewriteError::Overlap(other));
        }
    }
    Ok(())
}

/// Whether another section shares no byte of memory with this one when it has `size` bytes at least.
fn memory_apart(size: usize, section: &SectionTable, other: &SectionTable) -> bool
    requires { size < 2 ^ 32 }
    ensures { result ≡ memory_apart size section.now other.now }
{
    let start = section.virtual_address as usize;
    other.virtual_address as usize + other.virtual_size as usize <= start
        || start + size.max(section.virtual_size as usize) <= other.virtual_address as usize
}

/// Whether the section `other` is the one with this index, or shares no byte of memory with it when it has `size` bytes.
fn is_clear(bytes: &[u8], header: &Header<'_>, size: usize, index: usize, other: usize) -> bool
    requires inside { headers_end (header_view header.now) ≤ length bytes.now }
    requires below { index < header.now.coff_header.number_of_sections }
    requires other { other < header.now.coff_header.number_of_sections }
    requires small { size < 2 ^ 32 }
    ensures { result ≡ is_clear bytes.now (header_view header.now) size index other }
{
    if other == index {
        return true;
    }
    let section = section_header(bytes, header, index);
    memory_apart(size, &section, &section_header(bytes, header, other))
}

/// `Overlap` if another section, which may have no data, shares memory with the one that has this index when that has `size` bytes.
#[tactic(auto, using(pe_sign::proofs::SectionRows::all_more), unfolding(pe_core::specs::Rows::each))]
fn require_clear(
    bytes: &[u8],
    header: &Header<'_>,
    size: usize,
    index: usize,
) -> Result<(), RewriteError>
    requires inside { headers_end (header_view header.now) ≤ length bytes.now }
    requires below { index < header.now.coff_header.number_of_sections }
    requires small { size < 2 ^ 32 }
    ensures { RewriteReturns result (outcome
        ((grows_clear bytes.now (header_view header.now) size index, Overlap) ∷ []) tt) }
{
    for other in 0..header.coff_header.number_of_sections as usize {
        if !is_clear(bytes, header, size, index, other) {
            return Err(RewriteError::Overlap(other));
        }
    }
    Ok(())
}

/// `SharedSection` if a base relocation changes what is in the section, or one is not read.
fn require_section_unrelocated(
    bytes: &[u8],
    header: &Header<'_>,
    target: &Target,
    section: &SectionTable,
) -> Result<(), RewriteError>
    requires { headers_end (header_view header.now) ≤ length bytes.now }
    ensures { RewriteReturns result (outcome
        ((relocations_beside bytes.now (header_view header.now) target.now (rvas_of section.now), SharedSection) ∷ []) tt) }
{
    let rvas = Rvas {
        start: section.virtual_address as usize,
        end: pages_end(section),
        skips_unread: false,
    };
    require_unrelocated(bytes, header, target, &rvas)
}

/// The place of resources of `size` bytes in the section that has this index. Errors, in order: `Section`,
/// `SharedSection`, `Symbols`, `Overlap`, `NoRoom`, `Overlap` in memory, `DebugData`,
/// `SharedSection` of a base relocation.
pub fn place_at(
    bytes: &[u8],
    header: &Header<'_>,
    target: Target,
    index: usize,
    size: usize,
) -> Result<Place, RewriteError>
    requires inside { headers_end (header_view header.now) ≤ length bytes.now }
    requires below { index < header.now.coff_header.number_of_sections }
    requires some { 0 < target.file_alignment }
    ensures { RewriteReturns result (outcome
        (section_tests bytes.now (header_view header.now) target index size)
        (place_at bytes.now (header_view header.now) target size index)) }
{
    let section = section_header(bytes, header, index);
    if !has_data(bytes, header, &section) {
        return Err(RewriteError::Section(index));
    }
    if let Some(optional_header) = &header.optional_header {
        require_alone(&section, optional_header)?;
    }
    if !symbols_apart(header, &section) {
        return Err(RewriteError::Symbols(header.coff_header.pointer_to_symbol_table));
    }
    require_apart(bytes, header, target.file_alignment, index)?;
    if size > section.size_of_raw_data as usize
        || section.virtual_address as usize + size > target.size_of_image as usize
    {
        return Err(RewriteError::NoRoom {
            needed: size,
            room: section.size_of_raw_data,
        });
    }
    require_clear(bytes, header, size, index)?;
    let entries = debug_entries(bytes, header, &target);
    require_debug_apart(bytes, header, &section, entries)?;
    require_section_unrelocated(bytes, header, &target, &section)?;
    Ok(Place {
        entry: target.entry,
        row: header.sections_offset() + SIZE_OF_SECTION_HEADER * index,
        section,
        length: size,
    })
}

/// The place of the resources, if these leaves fit there. Errors: those of `write_edited`, but for the buffer's.
pub fn find_place(
    bytes: &[u8],
    header: &Header<'_>,
    leaves: &Leaves<'_>,
) -> Result<Place, RewriteError>
    ensures { RewriteReturns result
        (place_of bytes.now (header_view header.now) (leaf_views leaves.now)) }
{
    let target = find_target(header)?;
    let length = section_len(leaves, target.rva)?;
    require_headers(bytes, header, &target)?;
    let index = section_index(bytes, header, target.rva)?;
    place_at(bytes, header, target, index, length)
}
