//! Section headers: where a section is in the file and in memory
//! ([layout](https://learn.microsoft.com/windows/win32/debug/pe-format#section-table-section-headers)). A caller gets
//! them from `Header::sections` or `TeHeader::sections`, and passes them to every call that maps RVAs.

ghost use Rattle.std.specs.Prelude.{◌≡◌, ◌+◌, ◌*◌, ◌<◌, ◌≤◌, ◌^◌, length};
ghost use Rattle.pe_core.specs.Bytes.{record_at};
ghost use Rattle.pe_core.specs.Refusals.{Returns};

use crate::bytes::{read_u16, read_u32, require_bytes, slice_at};
use crate::error::Result;
use crate::header::{
    CoffHeader, Header, SIZE_OF_COFF_HEADER, SIZE_OF_PE_SIGNATURE, SIZE_OF_TE_HEADER, TeHeader,
    reduced,
};
use crate::text::{before_zero, text_of};
use std::alloc::Allocator;

/// The size of a section header in bytes.
const SIZE_OF_SECTION_HEADER: usize = 40;

/// A section header (`IMAGE_SECTION_HEADER`), 40 bytes.
#[repr(C)]
#[derive(Clone, Copy, Debug, PartialEq)]
pub struct SectionTable {
    /// The name, padded with zeros. `name()` returns it as text.
    pub name: [u8; 8],
    /// The size of the section in memory, in bytes.
    pub virtual_size: u32,
    /// The RVA of the section.
    pub virtual_address: u32,
    /// The size of the section's data in the file, in bytes.
    pub size_of_raw_data: u32,
    /// The file offset of the section's data.
    pub pointer_to_raw_data: u32,
    /// The file offset of the section's relocations.
    pub pointer_to_relocations: u32,
    /// The file offset of the section's line numbers.
    pub pointer_to_linenumbers: u32,
    /// The number of relocations.
    pub number_of_relocations: u16,
    /// The number of line numbers.
    pub number_of_linenumbers: u16,
    /// Flags, `IMAGE_SCN_*` of winnt.h.
    pub characteristics: u32,
}

impl SectionTable {
    ghost use Rattle.std.specs.Prelude.{◌↔◌, IsTrue};
    ghost use Rattle.std.specs.Option.{option_map};
    ghost use Rattle.pe_core.specs.Records.{section_table};
    ghost use Rattle.pe_core.specs.Sections.{section_name, section_data, raw_end, SharesRawByte};

    /// The section header at `offset`, whose 40 bytes the caller knows to lie in `bytes`.
    #[tactic(auto, unfolding(crate::specs::Records::section_table))]
    pub fn at(bytes: &[u8], offset: usize) -> SectionTable
        requires { offset + 40 ≤ length bytes.now }
        ensures { result ≡ section_table bytes.now offset }
    {
        let mut name = [0; 8];
        name.copy_from_slice(&bytes[offset..offset + 8]);
        SectionTable {
            name,
            virtual_size: read_u32(bytes, offset + 8),
            virtual_address: read_u32(bytes, offset + 12),
            size_of_raw_data: read_u32(bytes, offset + 16),
            pointer_to_raw_data: read_u32(bytes, offset + 20),
            pointer_to_relocations: read_u32(bytes, offset + 24),
            pointer_to_linenumbers: read_u32(bytes, offset + 28),
            number_of_relocations: read_u16(bytes, offset + 32),
            number_of_linenumbers: read_u16(bytes, offset + 34),
            characteristics: read_u32(bytes, offset + 36),
        }
    }

    /// The section header at `offset`. Error: `Short`.
    pub fn parse(bytes: &[u8], offset: usize) -> Result<SectionTable>
        ensures { Returns result (record_at bytes.now offset 40 (section_table bytes.now offset)) }
    {
        require_bytes(bytes, offset, 40)?;
        Ok(SectionTable::at(bytes, offset))
    }

    /// The name: the bytes up to the first zero. `None` if they are not UTF-8.
    pub fn name(&self) -> Option<&str>
        ensures { option_map (λ s. s.now) result ≡ section_name self.now }
    {
        text_of(before_zero(&self.name))
    }

    /// The section's data in the file: `size_of_raw_data` bytes from `pointer_to_raw_data` on. `None` if they are
    /// truncated.
    pub fn data<'a>(&self, bytes: &'a [u8]) -> Option<&'a [u8]>
        ensures { option_map (λ s. s.now) result ≡ section_data bytes.now self.now }
    {
        let offset = self.pointer_to_raw_data as usize;
        slice_at(bytes, offset, self.size_of_raw_data as usize).ok()
    }

    /// The file offset at which the section's data ends.
    pub(crate) fn raw_end(&self) -> usize
        ensures value { result ≡ raw_end self.now }
        ensures small { result < 2 ^ 33 }
    {
        self.pointer_to_raw_data as usize + self.size_of_raw_data as usize
    }

    /// Whether the two sections have a byte of the file in common.
    pub fn overlaps_with(&self, other: &SectionTable) -> bool
        ensures { IsTrue result ↔ SharesRawByte self.now other.now }
    {
        let start = self.pointer_to_raw_data.max(other.pointer_to_raw_data);
        (start as usize) < self.raw_end().min(other.raw_end())
    }
}

impl CoffHeader {
    ghost use Rattle.pe_core.specs.Refusals.{ReturnsUnlessMemoryAfter};
    ghost use Rattle.pe_core.specs.Sections.{sections_at};

    /// The section headers from `offset` on: after the optional header, or where its size says that it ends.
    /// Errors, in order: `Short` (the section headers are truncated), `Memory`. No headers are no read, so with a count
    /// of 0 the offset may be any.
    #[tactic(auto, unfolding(crate::specs::Rows::each))]
    pub fn sections<A: Allocator>(
        &self,
        alloc: A,
        bytes: &[u8],
        offset: usize,
    ) -> Result<Vec<SectionTable, A>>
        ensures { ReturnsUnlessMemoryAfter
            (sections_at bytes.now offset self.now.number_of_sections)
            (λ v. v.items) result (sections_at bytes.now offset self.now.number_of_sections) }
    {
        let count = self.number_of_sections as usize;
        // A count of 0 reads nothing, so any offset will do.
        if count > 0 {
            require_bytes(bytes, offset, SIZE_OF_SECTION_HEADER * count)?;
        }
        let mut sections = Vec::with_capacity(alloc, count)?;
        for i in 0..count {
            sections.push(SectionTable::at(bytes, offset + SIZE_OF_SECTION_HEADER * i))?;
        }
        Ok(sections)
    }
}

impl SectionTable {
    ghost use Rattle.pe_core.specs.TeImages.{reduced_section};

    /// The section header with its RVA and its raw pointer reduced by the offset.
    #[tactic(auto, unfolding(crate::specs::TeImages::reduced_section))]
    fn reduced(self, offset: u32) -> SectionTable
        ensures { result ≡ reduced_section offset self }
    {
        SectionTable {
            virtual_address: reduced(self.virtual_address, offset),
            pointer_to_raw_data: reduced(self.pointer_to_raw_data, offset),
            ..self
        }
    }
}

impl TeHeader {
    ghost use Rattle.pe_core.specs.Refusals.{ReturnsUnlessMemoryAfter};
    ghost use Rattle.pe_core.specs.TeImages.{te_sections_of};

    /// The section headers of a TE image, which follow the header's 40 bytes. The RVA and the raw pointer of each are
    /// reduced as the header's RVAs are. Errors, in order: `TeSize` (fewer than 40 bytes were dropped), `Short` (the
    /// section headers are truncated), `Memory`.
    #[tactic(auto, unfolding(crate::specs::Rows::each, crate::specs::TeImages::te_sections_of))]
    pub fn sections<A: Allocator>(&self, alloc: A, bytes: &[u8]) -> Result<Vec<SectionTable, A>>
        ensures { ReturnsUnlessMemoryAfter (te_sections_of bytes.now self.now) (λ v. v.items)
            result (te_sections_of bytes.now self.now) }
    {
        let offset = self.rva_offset()?;
        let start = SIZE_OF_TE_HEADER as usize;
        let rows = self.number_of_sections as usize;
        // A count of 0 reads nothing, so any offset will do.
        if rows > 0 {
            require_bytes(bytes, start, SIZE_OF_SECTION_HEADER * rows)?;
        }
        let mut reduced = Vec::with_capacity(alloc, rows)?;
        for row in 0..rows {
            let section = SectionTable::at(bytes, start + SIZE_OF_SECTION_HEADER * row);
            reduced.push(section.reduced(offset))?;
        }
        Ok(reduced)
    }
}

impl<'a> Header<'a> {
    ghost use Rattle.pe_core.specs.Header.{header_view};
    ghost use Rattle.pe_core.specs.Refusals.{ReturnsUnlessMemoryAfter};
    ghost use Rattle.pe_core.specs.Sections.{sections_offset, sections_of};

    /// The file offset of the section headers: after the PE signature, the COFF header, and as many bytes as the COFF
    /// header says of the optional header.
    pub fn sections_offset(&self) -> usize
        ensures { result ≡ sections_offset (header_view self.now) }
    {
        self.dos_header.pe_pointer as usize
            + SIZE_OF_PE_SIGNATURE
            + SIZE_OF_COFF_HEADER
            + self.coff_header.size_of_optional_header as usize
    }

    /// The section headers of the image, whose bytes are passed. Errors, in both modes, in order: `Short` (the section
    /// headers are truncated), `Memory`.
    pub fn sections<A: Allocator>(&self, alloc: A, bytes: &[u8]) -> Result<Vec<SectionTable, A>>
        ensures { ReturnsUnlessMemoryAfter (sections_of bytes.now (header_view self.now))
            (λ v. v.items) result (sections_of bytes.now (header_view self.now)) }
    {
        self.coff_header
            .sections(alloc, bytes, self.sections_offset())
    }
}
