//! Delay imports, directory 13
//! ([layout](https://learn.microsoft.com/windows/win32/debug/pe-format#delay-load-import-tables-image-only)): DLLs that are
//! loaded when one of their functions is called first. An entry of 32 bytes for each DLL leads to its name, and to a table of
//! what is imported of it, which is a lookup table as that of the import directory.
//!
//! A caller walks through the entries, through the table of each, and reads what a number of the table imports; or it lists
//! the DLLs, and what is imported of each, by `DelayImports::dlls` and `DelayImport::functions`. Linkers before Visual C++ 7
//! wrote virtual addresses instead of RVAs, and left bit 0 of the attributes clear.

ghost use Rattle.std.specs.Prelude.{◌≡◌, ◌==◌, ◌+◌, ◌%◌, ◌≤◌, length, IfOk};
ghost use Rattle.std.specs.Iterator.{at_most};
ghost use Rattle.pe_directories.specs.DelayImports.{delay_import_at, first_delay_import, delay_imports_left, offset_in_entry, delay_name, delay_dll, lookup_table, function_view, ordinal_flag, hint_offset, hint_and_name, imported_by};
ghost use Rattle.pe_directories.specs.DelayImportSteps.{ordinal_of};
ghost use Rattle.pe_directories.specs.DirectoryRefusals.{DirectoryReturns};
ghost use Rattle.pe_directories.specs.ImageParts.{IsMapOf, image_view, walk_table};
ghost use Rattle.pe_directories.specs.VaTables.{vas_left, vas_are_64};
ghost use Rattle.pe_directories.specs.Walks.{ReturnsFirst, LeavesFewer, Steps, most_left, rest_of};

use crate::error::{DirectoryError, Result};
use crate::image_bytes::ImageBytes;
use crate::indexed_image::IndexedImage;
use crate::va_table::VaTable;
use pe_core::{DataDirectory, SectionMap, read_u32, require_bytes, text_at, u16_at};
use std::alloc::Allocator;

/// The size of an entry in bytes.
const SIZE_OF_ENTRY: usize = 32;

/// An entry of the delay import directory (`IMAGE_DELAYLOAD_DESCRIPTOR`), 32 bytes: a DLL. Its addresses are RVAs if bit 0 of
/// the attributes is set, otherwise virtual addresses.
#[repr(C)]
#[derive(Clone, Copy, Debug, PartialEq)]
pub struct DelayImport {
    /// Flags, of which bit 0 is defined.
    pub attributes: u32,
    /// Where the name of the DLL is.
    pub name: u32,
    /// Where the handle of the DLL is written when it is loaded.
    pub module_handle: u32,
    /// Where the addresses of the functions are written.
    pub import_address_table: u32,
    /// Where the table of what is imported is.
    pub import_name_table: u32,
    /// Where the addresses are if the DLL has the time stamp. 0 if there are none.
    pub bound_import_address_table: u32,
    /// Where a copy of the address table is, to unload the DLL. 0 if there is none.
    pub unload_information_table: u32,
    /// The time stamp of the DLL to which the image is bound. 0 if it is not bound.
    pub time_date_stamp: u32,
}

/// What is imported of a DLL.
#[derive(Clone, Copy, Debug, PartialEq)]
pub enum DelayedFunction<'a> {
    /// By its ordinal.
    Ordinal(u16),
    /// By its name; the hint is where the name may be in the export name table of the DLL.
    Name { hint: u16, name: &'a str },
}

/// The least number of a lookup table that is an ordinal: its highest bit is set.
fn ordinal_flag(is_64: bool) -> u64
    ensures { result ≡ ordinal_flag is_64 }
{
    if is_64 { 1 << 63 } else { 1 << 31 }
}

/// The ordinal that a number of a lookup table is: its low 16 bits, if its highest bit is set.
pub(crate) fn ordinal_of(lookup: u64, is_64: bool) -> Option<u16>
    ensures { result ≡ ordinal_of is_64 lookup }
{
    if lookup < ordinal_flag(is_64) {
        return None;
    }
    Some((lookup % (1 << 16)) as u16)
}

/// The name at an offset. Error: `DelayImportName`.
#[tactic(auto, unfolding(crate::specs::DelayImports::delay_name))]
fn name_at<'a>(image: &ImageBytes<'a>, offset: usize) -> Result<&'a str>
    ensures { DirectoryReturns (λ s. s.now) result (delay_name (image_view image.now) offset) }
{
    match text_at(image.bytes, offset) {
        Some(name) => Ok(name),
        None => Err(DirectoryError::DelayImportName(offset)),
    }
}

/// The hint at an offset, and the name after it. Errors, in order: `Image` with `Short`; `DelayImportName`.
#[tactic(auto, unfolding(crate::specs::DelayImports::hint_and_name))]
fn hint_and_name<'a>(image: &ImageBytes<'a>, offset: usize) -> Result<DelayedFunction<'a>>
    ensures { DirectoryReturns function_view result (hint_and_name (image_view image.now) offset) }
{
    let hint = u16_at(image.bytes, offset)?;
    let name = name_at(image, offset + 2)?;
    Ok(DelayedFunction::Name { hint, name })
}

impl DelayImport {
    /// The entry at the start of the bytes, whose 32 bytes the caller knows to be there.
    #[tactic(auto, unfolding(crate::specs::DelayImports::delay_import_at))]
    fn at(bytes: &[u8]) -> DelayImport
        requires { 32 ≤ length bytes.now }
        ensures { result ≡ delay_import_at bytes.now }
    {
        DelayImport {
            attributes: read_u32(bytes, 0),
            name: read_u32(bytes, 4),
            module_handle: read_u32(bytes, 8),
            import_address_table: read_u32(bytes, 12),
            import_name_table: read_u32(bytes, 16),
            bound_import_address_table: read_u32(bytes, 20),
            unload_information_table: read_u32(bytes, 24),
            time_date_stamp: read_u32(bytes, 28),
        }
    }

    /// Whether its addresses are RVAs, and not virtual addresses.
    fn has_rvas(&self) -> bool
        ensures { result ≡ (self.now.attributes % 2 == 1) }
    {
        self.attributes % 2 == 1
    }

    /// The offset of an address of the entry in the bytes. Errors, in order: `VaBelowBase` of a virtual address; `Image` with
    /// `Unmapped`.
    pub fn offset_of(&self, image: &ImageBytes<'_>, address: u32) -> Result<usize>
        ensures { DirectoryReturns (λ p. p) result (offset_in_entry (image_view image.now) self.now address) }
    {
        self.offset_by(image, &image.section_map(), address)
    }

    /// The same by an index of the sections.
    pub(crate) fn offset_by_index<A: Allocator>(
        &self,
        image: &IndexedImage<'_, A>,
        address: u32,
    ) -> Result<usize>
        ensures { DirectoryReturns (λ p. p) result (offset_in_entry image.now self.now address) }
    {
        self.offset_by(image.image(), &image.section_map(), address)
    }

    /// The same by a section map of the image.
    #[tactic(auto, unfolding(crate::specs::DelayImports::offset_in_entry))]
    fn offset_by(
        &self,
        image: &ImageBytes<'_>,
        sections: &SectionMap<'_>,
        address: u32,
    ) -> Result<usize>
        requires { IsMapOf (image_view image.now) sections.now }
        ensures { DirectoryReturns (λ p. p) result (offset_in_entry (image_view image.now) self.now address) }
    {
        if self.has_rvas() {
            Ok(sections.offset_of(address)?)
        } else {
            image.offset_of_va_by(sections, u64::from(address))
        }
    }

    /// The offset in the bytes of the hint and the name to which a number of `lookups` leads that is no ordinal. The number is an
    /// RVA of 31 bits, or in an entry with virtual addresses one of as many bits as the image's addresses have, but for the
    /// highest, which marks ordinals. Errors, in order: `VaBelowBase` of a virtual address; `Image` with `Unmapped`.
    pub fn offset_of_hint(&self, image: &ImageBytes<'_>, lookup: u64) -> Result<usize>
        ensures { DirectoryReturns (λ p. p) result (hint_offset (image_view image.now) self.now lookup) }
    {
        self.hint_offset_by(image, &image.section_map(), lookup)
    }

    /// The same by an index of the sections.
    pub(crate) fn hint_offset_by_index<A: Allocator>(
        &self,
        image: &IndexedImage<'_, A>,
        lookup: u64,
    ) -> Result<usize>
        ensures { DirectoryReturns (λ p. p) result (hint_offset image.now self.now lookup) }
    {
        self.hint_offset_by(image.image(), &image.section_map(), lookup)
    }

    /// The same by a section map of the image.
    #[tactic(auto, unfolding(crate::specs::DelayImports::hint_offset))]
    fn hint_offset_by(
        &self,
        image: &ImageBytes<'_>,
        sections: &SectionMap<'_>,
        lookup: u64,
    ) -> Result<usize>
        requires { IsMapOf (image_view image.now) sections.now }
        ensures { DirectoryReturns (λ p. p) result (hint_offset (image_view image.now) self.now lookup) }
    {
        if self.has_rvas() {
            Ok(sections.offset_of((lookup % (1 << 31)) as u32)?)
        } else {
            image.offset_of_va_by(sections, lookup % ordinal_flag(image.is_64))
        }
    }

    /// The name of the DLL. Errors, in order: `VaBelowBase`, `Image` with `Unmapped`, `DelayImportName`.
    pub fn dll<'a>(&self, image: &ImageBytes<'a>) -> Result<&'a str>
        ensures { DirectoryReturns (λ s. s.now) result (delay_dll (image_view image.now) self.now) }
    {
        let offset = self.offset_of(image, self.name)?;
        name_at(image, offset)
    }

    /// The table of what is imported of the DLL: numbers for `imported`. Errors, in order: `VaBelowBase`, `Image` with
    /// `Unmapped`.
    pub fn lookups<'a>(&self, image: &ImageBytes<'a>) -> Result<VaTable<'a>>
        ensures left { DirectoryReturns vas_left result (lookup_table (image_view image.now) self.now) }
        ensures width { IfOk result (λ s. vas_are_64 s ≡ image.now.is_64) }
    {
        let offset = self.offset_of(image, self.import_name_table)?;
        Ok(VaTable::new(image.from_offset(offset), image.is_64))
    }

    /// What a number of `lookups` imports; `functions` reads all of them together. Errors, in order: `VaBelowBase`, `Image` with
    /// `Unmapped`, `Image` with `Short`, `DelayImportName`.
    #[tactic(auto, unfolding(crate::specs::DelayImports::imported_by))]
    pub fn imported<'a>(&self, image: &ImageBytes<'a>, lookup: u64) -> Result<DelayedFunction<'a>>
        ensures { DirectoryReturns function_view result
            (imported_by (image_view image.now) self.now lookup) }
    {
        if let Some(ordinal) = ordinal_of(lookup, image.is_64) {
            return Ok(DelayedFunction::Ordinal(ordinal));
        }
        let offset = self.offset_of_hint(image, lookup)?;
        hint_and_name(image, offset)
    }
}

/// The entry at the start of the bytes, and the bytes after it. `None` if there are no bytes, or if the entry has no name.
/// Error: `Image` with `Short`.
#[tactic(auto, unfolding(crate::specs::DelayImports::first_delay_import))]
fn first_delay_import(bytes: &[u8]) -> Option<Result<(DelayImport, &[u8])>>
    ensures first { ReturnsFirst (λ x. x) (λ r. r.now) (first_delay_import bytes.now) result }
    ensures fewer { LeavesFewer (λ r. r.now) bytes.now result }
{
    if bytes.is_empty() {
        return None;
    }
    if let Err(error) = require_bytes(bytes, 0, SIZE_OF_ENTRY) {
        return Some(Err(DirectoryError::Image(error)));
    }
    if read_u32(bytes, 4) == 0 {
        return None;
    }
    Some(Ok((DelayImport::at(bytes), bytes.split_at(SIZE_OF_ENTRY).1)))
}

/// The entries of the delay import directory that are left: those before one without a name. It is over after an error.
#[derive(Clone, Copy)]
pub struct DelayImports<'a> {
    left: Option<&'a [u8]>,
}

impl<'a> DelayImports<'a> {
    /// The entries at the RVA of `directory`, in as many bytes as its size says. Errors, in order: `Image` with `Unmapped`;
    /// `Image` with `Short`.
    pub fn parse(image: &ImageBytes<'a>, directory: DataDirectory) -> Result<DelayImports<'a>>
        ensures { DirectoryReturns
            delay_imports_left result (walk_table (image_view image.now) directory) }
    {
        Ok(DelayImports {
            left: Some(image.table(directory)?),
        })
    }

    /// The entries of these bytes.
    pub fn new(bytes: &'a [u8]) -> DelayImports<'a>
        ensures { delay_imports_left result ≡ Some bytes.entry.now }
    {
        DelayImports { left: Some(bytes) }
    }

    /// The bytes that are left: those of the next item are at their start. Empty if the walk is over.
    pub fn rest(&self) -> &'a [u8]
        ensures { result.now ≡ rest_of (delay_imports_left self.now) }
    {
        self.left.unwrap_or_default()
    }
}

impl<'a> Iterator for DelayImports<'a> {
    type Item = Result<DelayImport>;

    ghost next_gives = { λ s r t.
        Steps (λ x. x) first_delay_import (delay_imports_left s) r (delay_imports_left t) };

    ghost remaining = { λ s. at_most (most_left (delay_imports_left s)) };

    fn next(&mut self) -> Option<Result<DelayImport>> {
        let bytes = self.left?;
        self.left = None;
        match first_delay_import(bytes)? {
            Ok((entry, rest)) => {
                self.left = Some(rest);
                Some(Ok(entry))
            }
            Err(error) => Some(Err(error)),
        }
    }
}
