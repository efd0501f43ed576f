//! Bound imports, directory 11: DLLs whose addresses the linker, or a tool after it, wrote into the import address table. The
//! addresses are valid as long as each DLL has the time stamp that stands here. Entries of 8 bytes
//! ([`IMAGE_BOUND_IMPORT_DESCRIPTOR`]), each followed by one for each DLL that it forwards to, up to an entry without a name.
//!
//! The directory stands in the headers, which are loaded as they are in the file, so its RVA is a file offset. The offsets of
//! names count from its start; names may overlap, so a caller that looks up many takes them from `BoundImportDirectory::names`.
//!
//! [`IMAGE_BOUND_IMPORT_DESCRIPTOR`]: https://learn.microsoft.com/windows/win32/api/winnt/

ghost use Rattle.std.specs.Prelude.{◌≡◌, ◌<◌, Some, length, IfOk};
ghost use Rattle.std.specs.Iterator.{at_most};
ghost use Rattle.std.proofs.Common.{arith};
ghost use Rattle.pe_core.specs.EntriesLeft.{bytes_left};
ghost use Rattle.pe_directories.specs.BoundImports.{bound_view, bound_of, bound_forwarder_at, first_bound_import, bound_imports_left, bound_table, bound_name};
ghost use Rattle.pe_directories.specs.DirectoryRefusals.{DirectoryReturns};
ghost use Rattle.pe_directories.specs.ForwardersAfter.{forwarders_after};
ghost use Rattle.pe_directories.specs.Walks.{ReturnsFirst, LeavesFewer, Steps, most_left, rest_of};

use crate::error::{DirectoryError, Result};
use pe_core::{
    DataDirectory, TableEntries, TableEntry, read_u16, read_u32, require_bytes, slice_at, text_at,
};

/// The size of an entry in bytes, and of one of its forwarders.
const SIZE_OF_ENTRY: usize = 8;

/// The directory of bound imports.
#[derive(Clone, Copy)]
pub struct BoundImportDirectory<'a> {
    /// The bytes of the directory, as many as its size says.
    pub bytes: &'a [u8],
}

/// A DLL that the image is bound to.
#[derive(Clone, Copy)]
pub struct BoundImport<'a> {
    /// The time stamp of the DLL.
    pub time_date_stamp: u32,
    /// The offset of the name, in bytes from the start of the directory; see `BoundImportDirectory::name`.
    pub name: u16,
    /// The DLLs that it forwards to, 8 bytes each; see `forwarders`.
    pub forwarder_bytes: &'a [u8],
}

/// A DLL that another one forwards to (`IMAGE_BOUND_FORWARDER_REF`), 8 bytes of which the last two are reserved.
#[derive(Clone, Copy)]
pub struct BoundForwarder {
    /// The time stamp of the DLL.
    pub time_date_stamp: u32,
    /// The offset of the name, in bytes from the start of the directory.
    pub name: u16,
}

impl TableEntry for BoundForwarder {
    ghost SIZE = { 8 };

    ghost entry_at = { bound_forwarder_at };

    const SIZE: usize = SIZE_OF_ENTRY;

    const ITERATOR: &'static str = "BoundForwarders";

    fn at(bytes: &[u8], offset: usize) -> BoundForwarder {
        BoundForwarder {
            time_date_stamp: read_u32(bytes, offset),
            name: read_u16(bytes, offset + 4),
        }
    }

    ghost has_bytes = { omega arith };

    ghost reads_after = { forwarders_after };
}

/// The forwarders that are left of a DLL.
pub type BoundForwarders<'a> = TableEntries<'a, BoundForwarder>;

impl<'a> BoundImport<'a> {
    /// The DLLs that it forwards to.
    pub fn forwarders(&self) -> BoundForwarders<'a>
        ensures { bytes_left result ≡ self.now.forwarder_bytes.now }
    {
        TableEntries::new(self.forwarder_bytes)
    }
}

impl<'a> BoundImportDirectory<'a> {
    /// The directory in the bytes of an image, as many bytes as its size says from its RVA on, which is a file offset. Error:
    /// `Image` with `Short`.
    pub fn parse(bytes: &'a [u8], directory: DataDirectory) -> Result<BoundImportDirectory<'a>>
        ensures { DirectoryReturns
            (λ d. d.bytes.now) result (bound_table bytes.entry.now directory) }
    {
        let offset = directory.virtual_address as usize;
        let bytes = slice_at(bytes, offset, directory.size as usize)?;
        Ok(BoundImportDirectory { bytes })
    }

    /// The DLLs.
    pub fn imports(&self) -> BoundImports<'a>
        ensures { bound_imports_left result ≡ Some self.now.bytes.now }
    {
        BoundImports {
            left: Some(self.bytes),
        }
    }

    /// The name at an offset from the start of the directory. Error: `BoundImportName` if it is not NUL-terminated in the
    /// directory or not UTF-8. It is read to its end: a caller that looks up many takes them from `names`.
    #[tactic(auto, unfolding(crate::specs::BoundImports::bound_name))]
    pub fn name(&self, offset: u16) -> Result<&'a str>
        ensures { DirectoryReturns (λ s. s.now) result (bound_name self.now.bytes.now offset) }
    {
        match text_at(self.bytes, usize::from(offset)) {
            Some(name) => Ok(name),
            None => Err(DirectoryError::BoundImportName(offset)),
        }
    }
}

/// The DLL at the start of the bytes, and the bytes after its forwarders. Error: `Image` with `Short`.
#[tactic(auto, unfolding(crate::specs::BoundImports::bound_of))]
fn bound_import_at<'a>(bytes: &'a [u8]) -> Result<(BoundImport<'a>, &'a [u8])>
    ensures found { DirectoryReturns
        (λ x. (bound_view x.0, x.1.now)) result (bound_of bytes.entry.now) }
    ensures fewer { IfOk result (λ x. length x.1.now < length bytes.entry.now) }
{
    require_bytes(bytes, 0, SIZE_OF_ENTRY)?;
    let size = SIZE_OF_ENTRY + SIZE_OF_ENTRY * usize::from(read_u16(bytes, 6));
    require_bytes(bytes, 0, size)?;
    let import = BoundImport {
        time_date_stamp: read_u32(bytes, 0),
        name: read_u16(bytes, 4),
        forwarder_bytes: &bytes[SIZE_OF_ENTRY..size],
    };
    Ok((import, bytes.split_at(size).1))
}

/// The DLL at the start of the bytes, and the bytes after its forwarders. `None` if there are no bytes, or if the entry has
/// no name. Error: `Image` with `Short`.
#[tactic(auto, unfolding(crate::specs::BoundImports::first_bound_import))]
fn first_bound_import<'a>(bytes: &'a [u8]) -> Option<Result<(BoundImport<'a>, &'a [u8])>>
    ensures first { ReturnsFirst bound_view (λ r. r.now) (first_bound_import bytes.entry.now) result }
    ensures fewer { LeavesFewer (λ r. r.now) bytes.entry.now result }
{
    if bytes.is_empty() {
        return None;
    }
    if bytes.len() >= SIZE_OF_ENTRY && read_u16(bytes, 4) == 0 {
        return None;
    }
    Some(bound_import_at(bytes))
}

/// The DLLs that are left of a directory. It is over after an error.
#[derive(Clone, Copy)]
pub struct BoundImports<'a> {
    left: Option<&'a [u8]>,
}

impl<'a> BoundImports<'a> {
    /// The bytes that are left: those of the next item are at their start. Empty if the walk is over.
    pub fn rest(&self) -> &'a [u8]
        ensures { result.now ≡ rest_of (bound_imports_left self.now) }
    {
        self.left.unwrap_or_default()
    }
}

impl<'a> Iterator for BoundImports<'a> {
    type Item = Result<BoundImport<'a>>;

    ghost next_gives = { λ s r t.
        Steps bound_view first_bound_import (bound_imports_left s) r (bound_imports_left t) };

    ghost remaining = { λ s. at_most (most_left (bound_imports_left s)) };

    fn next(&mut self) -> Option<Result<BoundImport<'a>>> {
        let bytes = self.left?;
        self.left = None;
        match first_bound_import(bytes)? {
            Ok((import, rest)) => {
                self.left = Some(rest);
                Some(Ok(import))
            }
            Err(error) => Some(Err(error)),
        }
    }
}
