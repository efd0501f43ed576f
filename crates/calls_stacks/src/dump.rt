//! Minidumps: the header, the streams of the directory, strings, and the contexts of threads. A dump is a file of its own kind,
//! so that `bytes` are those of the dump. A caller takes the range of a stream once, and reads from it by index.
//! https://learn.microsoft.com/windows/win32/api/minidumpapiset/

ghost use Rattle.std.specs.Prelude.{◌≡◌};
ghost use Rattle.calls_stacks.specs.Dumps.{DumpHandsOut, DumpHandsOutIf, dump_answer, dump_at, dump_entry_at, dump_number, dump_range_at, dump_stream_at, dump_text_at};
ghost use Rattle.pe_minidump.specs.Refusals.{dump_kind_of};

pub mod any_record;
pub mod contexts;
pub mod lists;
pub mod memory;
pub mod memory_runs;
pub mod records;

use calls_base::ranges::Range;
use calls_base::results::{DONE, NOTHING};
use pe_minidump::{
    DirectoryEntry, Dump, DumpError, DumpRecord, Location, Result, first_entry, located, text_at,
};

/// The size of an entry of the directory in bytes.
const SIZE_OF_ENTRY: usize = 12;

/// The size of the number before a string in bytes.
const SIZE_OF_LENGTH: u64 = 4;

/// What the header of a dump says (`MINIDUMP_HEADER`).
#[repr(C)]
#[derive(Clone, Copy)]
pub struct DumpInfo {
    /// The directory, entries of 12 bytes.
    pub directory: Range,
    /// What the writer was asked for, `MINIDUMP_TYPE`.
    pub flags: u64,
    /// A793h in the low 16 bits; the others are the writer's own.
    pub version: u32,
    /// The number of entries of the directory.
    pub number_of_streams: u32,
    /// Mostly 0.
    pub check_sum: u32,
    /// When the dump was written, in seconds since 1970.
    pub time_date_stamp: u32,
}

/// The number of an error of a dump. It stays the same from version to version. `tools/make_errors` writes the arms.
pub fn number_of_dump(error: &DumpError) -> u32
    ensures { result ≡ dump_number (dump_kind_of error.now) }
{
    match error {
        DumpError::Short { .. } => 2,
        DumpError::Signature(_) => 551,
        DumpError::Version(_) => 552,
        DumpError::Directory { .. } => 553,
        DumpError::Location { .. } => 554,
        DumpError::ListSize { .. } => 555,
        DumpError::EntrySize { .. } => 556,
        DumpError::Text { .. } => 557,
        DumpError::ContextSize { .. } => 558,
        DumpError::ContextFlags(_) => 559,
        DumpError::Machine(_) => 560,
    }
}

/// Writes a value to `out` and returns `DONE`, or returns the number of an error and leaves `out` unchanged.
pub fn hand_out_dump<T: Copy>(given: Result<T>, out: &mut T) -> u32
    ensures { DumpHandsOut result out.old out.new (dump_answer given) }
{
    match given {
        Ok(value) => {
            *out = value;
            DONE
        }
        Err(error) => number_of_dump(&error),
    }
}

/// The same of what may be absent: then returns `NOTHING`.
pub fn hand_out_dump_if<T: Copy>(given: Result<Option<T>>, out: &mut T) -> u32
    ensures { DumpHandsOutIf result out.old out.new (dump_answer given) }
{
    match given {
        Ok(Some(value)) => {
            *out = value;
            DONE
        }
        Ok(None) => NOTHING,
        Err(error) => number_of_dump(&error),
    }
}

pub fn dump_at(bytes: &[u8]) -> Result<DumpInfo>
    ensures { dump_answer result ≡ dump_at bytes.now }
{
    let dump = Dump::parse(bytes)?;
    Ok(DumpInfo {
        directory: Range {
            offset: u64::from(dump.header.stream_directory_rva),
            length: dump.directory.len() as u64,
        },
        flags: dump.header.flags,
        version: dump.header.version,
        number_of_streams: dump.header.number_of_streams,
        check_sum: dump.header.check_sum,
        time_date_stamp: dump.header.time_date_stamp,
    })
}

/// The bytes of a location, as a range.
fn dump_range_at(bytes: &[u8], location: &Location) -> Result<Range>
    ensures { dump_answer result ≡ dump_range_at bytes.now location.now }
{
    let (offset, length) = (u64::from(location.rva), u64::from(location.size));
    located(bytes, offset, length)?;
    Ok(Range { offset, length })
}

pub fn dump_entry_at(bytes: &[u8], directory: &Range, index: u64) -> Result<Option<DirectoryEntry>>
    ensures { dump_answer result ≡ dump_entry_at bytes.now directory.now index }
{
    let directory = located(bytes, directory.offset, directory.length)?;
    if (directory.len() / SIZE_OF_ENTRY) as u64 <= index {
        return Ok(None);
    }
    Ok(Some(DirectoryEntry::at(directory, SIZE_OF_ENTRY * index as usize)))
}

pub fn dump_stream_at(bytes: &[u8], directory: &Range, stream_type: u32) -> Result<Option<Range>>
    ensures { dump_answer result ≡ dump_stream_at bytes.now directory.now stream_type }
{
    let directory = located(bytes, directory.offset, directory.length)?;
    match first_entry(directory, stream_type) {
        Some(entry) => Ok(Some(dump_range_at(bytes, &entry.location)?)),
        None => Ok(None),
    }
}

pub fn dump_text_at(bytes: &[u8], rva: u64) -> Result<Range>
    ensures { dump_answer result ≡ dump_text_at bytes.now rva }
{
    let text = text_at(bytes, rva)?;
    Ok(Range {
        offset: rva + SIZE_OF_LENGTH,
        length: text.len() as u64,
    })
}
