//! The tests before certificates are attached or detached. The certificate table has to be the end of the file, and
//! nothing else may reach into it: not the headers, and not the data of a section. See Microsoft's
//! [attribute certificate table](https://learn.microsoft.com/windows/win32/debug/pe-format#the-attribute-certificate-table-image-only).

ghost use Rattle.std.specs.Prelude.{◌≡◌, ◌+◌, ◌*◌, ◌≤◌, [], ◌∷◌, IfOk, length, nat_le};
ghost use Rattle.pe_core.specs.Header.{header_view};
ghost use Rattle.pe_core.specs.Sections.{sections_offset};
ghost use Rattle.pe_core.specs.Refusals.{outcome};
ghost use Rattle.pe_sign.specs.SignRefusals.{Section, SignReturns};
ghost use Rattle.pe_sign.specs.Attaching.{is_signed, unsigned_length, headers_end_by, data_ends_by, sections_end_by, changeable_parts};
ghost use Rattle.pe_sign.specs.AttachingSteps.{Fits, table_tests};

use crate::digest::{LeftOut, SIZE_OF_ENTRY, left_out};
use crate::error::SignError;
use crate::image_checksum::SIZE_OF_CHECKSUM;
use pe_core::{Error, Header, Reason, SectionTable};

/// The size of a section header in bytes.
const SIZE_OF_SECTION_HEADER: usize = 40;

/// Whether the image has a certificate table.
pub fn is_signed(left_out: &LeftOut) -> bool
    ensures { result ≡ is_signed left_out.now }
{
    !(left_out.certificates.offset == 0 && left_out.certificates.length == 0)
}

/// How many bytes of a file of this length are before the certificate table.
pub fn unsigned_length(left_out: &LeftOut, length: usize) -> usize
    ensures { result ≡ unsigned_length left_out.now length }
{
    if is_signed(left_out) {
        left_out.certificates.offset
    } else {
        length
    }
}

/// Errors, in order: `NoDirectory`; `CertificateTable` if the certificate table passes the end of a file of this
/// length; `TableNotLast` if it ends before that.
fn require_table(header: &Header<'_>, left_out: &LeftOut, length: usize) -> Result<(), SignError>
    ensures { SignReturns result (outcome (table_tests left_out.now length) tt) }
{
    if left_out.directory_entry.length != SIZE_OF_ENTRY {
        return Err(SignError::NoDirectory(count_of_directories(header)));
    }
    let table = left_out.certificates;
    if length < table.length || length - table.length < table.offset {
        let end = (table.offset as u64).saturating_add(table.length as u64);
        return Err(SignError::Image(Error::Malformed(Reason::CertificateTable(end))));
    }
    let end = table.offset + table.length;
    if is_signed(left_out) && end < length {
        return Err(SignError::TableNotLast(end));
    }
    Ok(())
}

/// How many data directories the image has.
fn count_of_directories(header: &Header<'_>) -> usize {
    match &header.optional_header {
        Some(optional_header) => optional_header.data_directories.rows().len(),
        None => 0,
    }
}

/// Whether a field of `size` bytes at `offset` ends at or before `end`.
fn ends_by(offset: usize, size: usize, end: usize) -> bool
    ensures { result ≡ nat_le (offset + size) end }
{
    size <= end && offset <= end - size
}

/// The file offset at which the section table ends.
fn section_table_end(header: &Header<'_>) -> usize
    ensures { result ≡ sections_offset
        (header_view header.now) + 40 * header.now.coff_header.number_of_sections }
{
    header.sections_offset()
        + SIZE_OF_SECTION_HEADER * header.coff_header.number_of_sections as usize
}

/// Whether the checksum, the entry of the certificate directory and the section table end at or before `end`.
fn headers_end_by(header: &Header<'_>, left_out: &LeftOut, end: usize) -> bool
    ensures { result ≡ headers_end_by (header_view header.now) left_out.now end }
{
    ends_by(left_out.checksum.offset, SIZE_OF_CHECKSUM, end)
        && ends_by(left_out.directory_entry.offset, SIZE_OF_ENTRY, end)
        && section_table_end(header) <= end
}

/// Whether the section has no data in the file, or its data end at or before `end`.
fn data_ends_by(section: SectionTable, end: usize) -> bool
    ensures { result ≡ data_ends_by end section }
{
    section.size_of_raw_data == 0
        || section.pointer_to_raw_data as usize + section.size_of_raw_data as usize <= end
}

/// `Section` if the data of a section end after `end`.
#[tactic(auto, using(crate::proofs::SectionRows::all_more, crate::proofs::SectionRows::one_fails), unfolding(pe_core::specs::Rows::each))]
fn require_sections(bytes: &[u8], header: &Header<'_>, end: usize) -> Result<(), SignError>
    requires { sections_offset (header_view header.now)
        + 40 * header.now.coff_header.number_of_sections ≤ length bytes.now }
    ensures { SignReturns result
        (outcome ((sections_end_by bytes.now (header_view header.now) end, Section) ∷ []) tt) }
{
    let start = header.sections_offset();
    for index in 0..header.coff_header.number_of_sections as usize {
        let section = SectionTable::at(bytes, start + SIZE_OF_SECTION_HEADER * index);
        if !data_ends_by(section, end) {
            return Err(SignError::Section(index));
        }
    }
    Ok(())
}

/// The parts of the image that its digest leaves out, if its certificates can be changed. Errors, in order: `Image`
/// with `NoOptionalHeader`; `NoDirectory`; `Image` with `CertificateTable`; `TableNotLast`; `Headers`; `Section`.
pub fn image(bytes: &[u8], header: &Header<'_>) -> Result<LeftOut, SignError>
    ensures parts { SignReturns result (changeable_parts bytes.now (header_view header.now)) }
    ensures fits { IfOk result (λ l. Fits l (length bytes.now)) }
{
    let left_out = left_out(header)?;
    require_table(header, &left_out, bytes.len())?;
    let end = unsigned_length(&left_out, bytes.len());
    if !headers_end_by(header, &left_out, end) {
        return Err(SignError::Headers(end));
    }
    require_sections(bytes, header, end)?;
    Ok(left_out)
}
