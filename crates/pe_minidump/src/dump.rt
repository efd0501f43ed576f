//! A minidump: the header of 32 bytes, and the directory, whose entries say where each stream stands
//! ([`MINIDUMP_HEADER`](https://learn.microsoft.com/windows/win32/api/minidumpapiset/ns-minidumpapiset-minidump_header),
//! [`MINIDUMP_DIRECTORY`](https://learn.microsoft.com/windows/win32/api/minidumpapiset/ns-minidumpapiset-minidump_directory)).
//! The kinds of streams are those of
//! [`MINIDUMP_STREAM_TYPE`](https://learn.microsoft.com/windows/win32/api/minidumpapiset/ne-minidumpapiset-minidump_stream_type).
//!
//! A file that was truncated, for instance because a disk was full, is a dump as long as its directory is there: the streams that
//! lie in it are read, and each of the others is refused by itself.

ghost use Rattle.std.specs.Prelude.{◌≡◌, ◌+◌, ◌*◌, ◌/◌, ◌≤◌, ◌==◌, length, map};
ghost use Rattle.std.proofs.Common.{arith};
ghost use Rattle.std.specs.List.{find, range_with_len};
ghost use Rattle.std.specs.Option.{option_map};
ghost use Rattle.pe_minidump.specs.Dumps.{directory_bytes, dump_of, dump_view, directory_of, first_entry, located, stream};
ghost use Rattle.pe_minidump.specs.Records.{directory_entry, dump_header};
ghost use Rattle.pe_minidump.specs.Refusals.{DumpReturns};
ghost use Rattle.pe_minidump.specs.Tables.{records};

use crate::error::{DumpError, Result};
use crate::location::{Location, located, require_fields};
use crate::table::{DumpRecord, Table};
use pe_core::{read_u32, read_u64};

/// `MINIDUMP_SIGNATURE`, the letters `MDMP`.
pub const MINIDUMP_SIGNATURE: u32 = 0x504D_444D;

/// `MINIDUMP_VERSION`, the low 16 bits of the version.
pub const MINIDUMP_VERSION: u32 = 0xA793;

/// The size of a header in bytes.
const SIZE_OF_HEADER: usize = 32;

/// The size of an entry of the directory in bytes.
const SIZE_OF_ENTRY: usize = 12;

/// The header of a minidump (`MINIDUMP_HEADER`), 32 bytes.
#[repr(C)]
#[derive(Clone, Copy, Debug)]
pub struct DumpHeader {
    /// `MINIDUMP_SIGNATURE`.
    pub signature: u32,
    /// `MINIDUMP_VERSION` in the low 16 bits; the others are the writer's own.
    pub version: u32,
    /// The number of entries of the directory.
    pub number_of_streams: u32,
    /// The offset of the directory in the file.
    pub stream_directory_rva: u32,
    /// The checksum, which is mostly 0.
    pub check_sum: u32,
    /// When the dump was written, in seconds since 1970.
    pub time_date_stamp: u32,
    /// What the writer was asked for, `MINIDUMP_TYPE`.
    pub flags: u64,
}

impl DumpHeader {
    /// The header at the start of bytes that are known to have one.
    #[tactic(auto, unfolding(crate::specs::Records::dump_header))]
    fn of(bytes: &[u8]) -> DumpHeader
        requires { 32 ≤ length bytes.now }
        ensures { result ≡ dump_header bytes.now 0 }
    {
        DumpHeader {
            signature: read_u32(bytes, 0),
            version: read_u32(bytes, 4),
            number_of_streams: read_u32(bytes, 8),
            stream_directory_rva: read_u32(bytes, 12),
            check_sum: read_u32(bytes, 16),
            time_date_stamp: read_u32(bytes, 20),
            flags: read_u64(bytes, 24),
        }
    }
}

/// An entry of the directory (`MINIDUMP_DIRECTORY`), 12 bytes.
#[repr(C)]
#[derive(Clone, Copy, Debug, PartialEq)]
pub struct DirectoryEntry {
    /// The kind of the stream, `MINIDUMP_STREAM_TYPE`. `UnusedStream`, 0, is none.
    pub stream_type: u32,
    /// Where the stream stands.
    pub location: Location,
}

impl DumpRecord for DirectoryEntry {
    ghost SIZE = { 12 };

    ghost record_at = { directory_entry };

    const SIZE: usize = SIZE_OF_ENTRY;

    const LIST: &'static str = "DumpDirectory";

    #[tactic(auto, unfolding(crate::specs::Records::directory_entry))]
    fn at(bytes: &[u8], offset: usize) -> DirectoryEntry {
        DirectoryEntry {
            stream_type: read_u32(bytes, offset),
            location: Location::at(bytes, offset + 4),
        }
    }

    ghost is_small = { omega arith };
}

/// A minidump, by the bytes of its file.
#[derive(Clone, Copy, Debug)]
pub struct Dump<'a> {
    /// The bytes of the whole file.
    pub bytes: &'a [u8],
    /// The header.
    pub header: DumpHeader,
    /// The bytes of the directory, 12 an entry; see `directory()`.
    pub directory: &'a [u8],
}

/// The bytes of the directory to which a header leads. Error: `Directory`.
fn directory_bytes<'a>(bytes: &'a [u8], header: &DumpHeader) -> Result<&'a [u8]>
    ensures { DumpReturns (λ s. s.now) result (directory_bytes bytes.entry.now header.now) }
{
    let (rva, count) = (header.stream_directory_rva, header.number_of_streams);
    match located(
        bytes,
        u64::from(rva),
        SIZE_OF_ENTRY as u64 * u64::from(count),
    ) {
        Ok(directory) => Ok(directory),
        Err(_) => Err(DumpError::Directory {
            rva,
            count,
            length: bytes.len(),
        }),
    }
}

/// The first entry of a kind in the bytes of a directory.
pub fn first_entry(directory: &[u8], stream_type: u32) -> Option<DirectoryEntry>
    ensures { result ≡ first_entry directory.now stream_type }
{
    (0..directory.len() / SIZE_OF_ENTRY)
        .map(
            |i|
                requires { 12 * i + 12 ≤ length directory.now }
                ensures { result ≡ directory_entry directory.entry.now (12 * i) }
            { DirectoryEntry::at(directory, SIZE_OF_ENTRY * i) },
        )
        .find(|entry| entry.stream_type == stream_type)
}

impl<'a> Dump<'a> {
    /// The dump that is a file. Errors, in order: `Short` if there are fewer than 32 bytes; `Signature`; `Version`; `Directory`
    /// if its entries do not all lie in the file.
    #[tactic(auto, unfolding(crate::specs::Dumps::dump_of, crate::specs::Records::dump_header))]
    pub fn parse(bytes: &'a [u8]) -> Result<Dump<'a>>
        ensures { DumpReturns dump_view result (dump_of bytes.entry.now) }
    {
        require_fields(bytes, SIZE_OF_HEADER)?;
        let header = DumpHeader::of(bytes);
        if header.signature != MINIDUMP_SIGNATURE {
            return Err(DumpError::Signature(header.signature));
        }
        if header.version % 0x1_0000 != MINIDUMP_VERSION {
            return Err(DumpError::Version(header.version));
        }
        let directory = directory_bytes(bytes, &header)?;
        Ok(Dump {
            bytes,
            header,
            directory,
        })
    }

    /// The entries of the directory. To go over all streams, take the bytes of each entry by `located`: `stream` looks
    /// for its kind from the start each time.
    pub fn directory(&self) -> Table<'a, DirectoryEntry>
        ensures { records directory_entry result.bytes.now result.stride result.count ≡ directory_of (dump_view self.now) }
    {
        Table::new(
            self.directory,
            SIZE_OF_ENTRY,
            self.directory.len() / SIZE_OF_ENTRY,
        )
    }

    /// The bytes at a location. Error: `Location` if they do not all lie in the file.
    pub fn located(&self, location: Location) -> Result<&'a [u8]>
        ensures { DumpReturns (λ s. s.now) result (located self.now.bytes.now location.rva location.size) }
    {
        located(
            self.bytes,
            u64::from(location.rva),
            u64::from(location.size),
        )
    }

    /// The bytes of the stream of a kind: those of the first entry of the kind. `None` if the directory has no such entry.
    /// Error: `Location`.
    pub fn stream(&self, stream_type: u32) -> Result<Option<&'a [u8]>>
        ensures { DumpReturns (option_map (λ s. s.now)) result (stream (dump_view self.now) stream_type) }
    {
        match first_entry(self.directory, stream_type) {
            Some(entry) => Ok(Some(self.located(entry.location)?)),
            None => Ok(None),
        }
    }
}
