//! What the readers of directories need of an image: its bytes, its section map, and how wide its virtual addresses are.
//! Directories name parts of the image by RVAs, and by virtual addresses, which count from the image base.

ghost use Rattle.std.specs.Prelude.{◌≡◌, ◌+◌, ◌≤◌, drop, length, IfOk};
ghost use Rattle.pe_core.specs.Header.{optional_header_view};
ghost use Rattle.pe_directories.specs.DirectoryRefusals.{DirectoryReturns};
ghost use Rattle.pe_directories.specs.ImageParts.{IsMapOf, image_view, image_with, offset_of_rva, offset_of_va, table_at_va, range_of, record_of, table_of, size_of_va};

use crate::error::{DirectoryError, Result};
use pe_core::{
    ByteRange, DataDirectory, Error, MAGIC_64, OptionalHeader, ParseOptions, Reason, SectionMap,
    SectionTable, mapped_offset, require_bytes,
};

/// An image: its bytes, and what its headers say of them.
#[derive(Clone, Copy)]
pub struct ImageBytes<'a> {
    /// The bytes of the whole file, or of the image as loaded, for which `opts` has `resolve_rva` off.
    pub bytes: &'a [u8],
    /// The section headers.
    pub sections: &'a [SectionTable],
    /// The file alignment in bytes, of the optional header.
    pub file_alignment: u32,
    /// The preferred base, of the optional header: a virtual address less it is an RVA.
    pub image_base: u64,
    /// PE32+: virtual addresses have 8 bytes, otherwise 4.
    pub is_64: bool,
    /// Whether RVAs are mapped.
    pub opts: ParseOptions,
}

impl<'a> ImageBytes<'a> {
    /// An image with this optional header and these section headers. Its RVAs are mapped as `opts` says.
    pub fn new(
        bytes: &'a [u8],
        optional_header: &OptionalHeader,
        sections: &'a [SectionTable],
        opts: &ParseOptions,
    ) -> ImageBytes<'a>
        ensures { image_view result ≡ image_with bytes.entry.now
            (optional_header_view optional_header.now) sections.entry.now opts.now }
    {
        ImageBytes {
            bytes,
            sections,
            file_alignment: optional_header.windows_fields.file_alignment,
            image_base: optional_header.windows_fields.image_base,
            is_64: optional_header.standard_fields.magic == MAGIC_64,
            opts: *opts,
        }
    }

    /// The offset of an RVA in the bytes. Error: `Image` with `Unmapped`.
    pub(crate) fn offset_of_rva(&self, rva: u32) -> Result<usize>
        ensures { DirectoryReturns (λ p. p) result (offset_of_rva (image_view self.now) rva) }
    {
        Ok(mapped_offset(rva, self.sections, self.file_alignment, &self.opts)?)
    }

    /// The offset of a record of `size` bytes at an RVA, which are all there. Errors, in order: `Image` with `Unmapped`;
    /// `Image` with `Short`.
    pub(crate) fn record_at(&self, rva: u32, size: usize) -> Result<usize>
        ensures { DirectoryReturns (λ p. p) result (record_of (image_view self.now) rva size) }
    {
        let offset = self.offset_of_rva(rva)?;
        require_bytes(self.bytes, offset, size)?;
        Ok(offset)
    }

    /// The range of a directory in the bytes: as many as its size says from its RVA on. Errors, in order: `Image` with
    /// `Unmapped`; `Image` with `Short`.
    pub fn range_of(&self, directory: DataDirectory) -> Result<ByteRange>
        ensures range { DirectoryReturns (λ r. r) result (range_of (image_view self.now) directory) }
        ensures inside { IfOk result (λ r. r.offset + r.length ≤ length self.now.bytes.now) }
    {
        let size = directory.size as usize;
        let offset = self.record_at(directory.virtual_address, size)?;
        Ok(ByteRange {
            offset,
            length: size,
        })
    }

    /// The bytes at the RVA of a directory, as many as its size says. Errors: those of `record_at`.
    pub(crate) fn table(&self, directory: DataDirectory) -> Result<&'a [u8]>
        ensures { DirectoryReturns (λ s. s.now) result (table_of (image_view self.now) directory) }
    {
        let range = self.range_of(directory)?;
        Ok(&self.bytes[range.offset..range.offset + range.length])
    }

    /// The section map of the image, which tests the sections in turn.
    pub(crate) fn section_map(&self) -> SectionMap<'a>
        ensures { IsMapOf (image_view self.now) result }
    {
        SectionMap::new(self.sections, self.file_alignment, &self.opts)
    }

    /// The offset of a virtual address in the bytes, which may be past their end. Errors, in order: `VaBelowBase`; `Image`
    /// with `Unmapped`.
    pub fn offset_of_va(&self, va: u64) -> Result<usize>
        ensures { DirectoryReturns (λ p. p) result (offset_of_va (image_view self.now) va) }
    {
        self.offset_of_va_by(&self.section_map(), va)
    }

    /// The same by a section map of the image, which may have an index.
    #[tactic(auto, unfolding(crate::specs::ImageParts::offset_of_va))]
    pub(crate) fn offset_of_va_by(&self, sections: &SectionMap<'_>, va: u64) -> Result<usize>
        requires { IsMapOf (image_view self.now) sections.now }
        ensures { DirectoryReturns (λ p. p) result (offset_of_va (image_view self.now) va) }
    {
        if va < self.image_base {
            return Err(DirectoryError::VaBelowBase(va));
        }
        let rva = va - self.image_base;
        match sections.find(rva as usize) {
            Some(offset) => Ok(offset),
            None => Err(DirectoryError::Image(Error::Malformed(Reason::Unmapped(rva)))),
        }
    }

    /// The bytes from an offset on, none past their end.
    #[tactic(auto, using(std::proofs::lemmas::List::drop_all))]
    pub(crate) fn from_offset(&self, offset: usize) -> &'a [u8]
        ensures { result.now ≡ drop offset self.now.bytes.now }
    {
        if offset <= self.bytes.len() {
            &self.bytes[offset..]
        } else {
            &[]
        }
    }

    /// The bytes from a virtual address on, none past their end. Errors: those of `offset_of_va`.
    pub(crate) fn table_at_va(&self, va: u64) -> Result<&'a [u8]>
        ensures { DirectoryReturns (λ s. s.now) result (table_at_va (image_view self.now) va) }
    {
        let offset = self.offset_of_va(va)?;
        Ok(self.from_offset(offset))
    }
}

/// The size of a virtual address in bytes.
pub(crate) fn size_of_va(is_64: bool) -> usize
    ensures { result ≡ size_of_va is_64 }
{
    if is_64 { 8 } else { 4 }
}
