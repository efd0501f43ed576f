//! Program databases (PDB 7.0), which have the names and lines of an image that was linked with debug information: what the file
//! says of itself, and its streams. A PDB is a file of its own kind, so that `bytes` are those of the PDB. Its streams are scattered
//! over blocks: a caller copies one into a room, and what reads it takes the bytes of that room. Ranges that these calls return
//! are of that room too.
//! https://llvm.org/docs/PDB/

ghost use Rattle.std.specs.Prelude.{◌≡◌, ◌↔◌, IsTrue, Ok, length};
ghost use Rattle.pe_pdb.specs.Msf.{msf_view};
ghost use Rattle.pe_pdb.specs.Refusals.{PdbReturns, pdb_kind_of};
ghost use Rattle.pe_pdb.specs.Streams.{stream_view};
ghost use Rattle.calls_base.specs.Lists.{by_number};
ghost use Rattle.calls_pdb.specs.Pdbs.{IsPdbOf, PdbHandsOut, PdbHandsOutIf, dbi_in, dbi_streams, head_of, info_in, part_of, pdb_answer, pdb_at, pdb_number, pdb_reported, stream_at, stream_range, with_dbi};

use calls_base::ranges::{NO_BYTES, Range, some_range};
use calls_base::results::{DONE, NOTHING, ROOM};
use calls_headers::debug::records::SymbolKey;
use pe_core::slice_at;
use pe_pdb::{
    DBI_STREAM, DEBUG_OMAP_FROM_SOURCE, DEBUG_OMAP_TO_SOURCE, DEBUG_ORIGINAL_SECTION_HEADERS,
    DEBUG_SECTION_HEADERS, DbiHeader, INFO_STREAM, Msf, NO_STREAM, PdbError, PdbInfo, Result,
    Stream, SuperBlock, debug_stream,
};

/// The size of the header of the DBI stream in bytes, where its modules start.
const SIZE_OF_HEADER: u64 = 64;

/// The size of the head of the info stream in bytes.
const SIZE_OF_INFO: usize = 28;

/// The size of the numbers of streams with tables of the image that are read.
const SIZE_OF_NUMBERS: usize = 22;

/// What a PDB says of itself. Streams are their numbers, or `NO_STREAM`.
#[repr(C)]
#[derive(Clone, Copy)]
pub struct Pdb {
    /// The GUID, as an image has it.
    pub guid: [u8; 16],
    /// The range of the modules in the DBI stream, a walk over them at its start.
    pub modules: Range,
    /// The range of the section contributions in the DBI stream.
    pub contributions: Range,
    /// The version of the info stream.
    pub version: u32,
    /// When the PDB was made, in seconds since 1970, or a number of the linker's.
    pub time_stamp: u32,
    /// How often the PDB was written.
    pub age: u32,
    /// The age that an image has.
    pub dbi_age: u32,
    /// The size of a block in bytes.
    pub block_size: u32,
    /// The number of blocks of the file.
    pub number_of_blocks: u32,
    /// The number of streams.
    pub number_of_streams: u32,
    /// 0, or the number of the error of the DBI stream.
    pub dbi_result: u32,
    /// `IMAGE_FILE_MACHINE_*` of winnt.h.
    pub machine: u16,
    /// Bit 0: linked incrementally; bit 1: private symbols are stripped; bit 2: has types that contradict one another.
    pub flags: u16,
    /// The version of the linker.
    pub build: u16,
    /// The stream with the records of public and global symbols.
    pub symbol_stream: u16,
    /// The stream with the section headers of the image.
    pub section_headers: u16,
    /// The same before a tool moved the code of the image.
    pub original_section_headers: u16,
    /// Where an RVA is in the image before that.
    pub omap_to_source: u16,
    /// Where an RVA of that image is now.
    pub omap_from_source: u16,
}

/// What the DBI stream says.
#[derive(Clone, Copy)]
pub struct DbiStreams {
    pub header: DbiHeader,
    /// The streams with tables of the image, or `NO_STREAM`.
    pub section_headers: u16,
    pub original_section_headers: u16,
    pub omap_to_source: u16,
    pub omap_from_source: u16,
}

/// The number of an error of a PDB. It stays the same from version to version. `tools/make_errors` writes the arms.
pub fn number_of_pdb(error: &PdbError) -> u32
    ensures { result ≡ pdb_number (pdb_kind_of error.now) }
{
    match error {
        PdbError::Short { .. } => 2,
        PdbError::Pdb20 => 601,
        PdbError::PortablePdb => 602,
        PdbError::Magic => 603,
        PdbError::BlockSize(_) => 604,
        PdbError::FileSize { .. } => 605,
        PdbError::BlockMap(_) => 606,
        PdbError::Block(_) => 607,
        PdbError::Directory { .. } => 608,
        PdbError::NoStream(_) => 609,
        PdbError::StreamSize { .. } => 610,
        PdbError::Outside { .. } => 611,
        PdbError::InfoVersion(_) => 612,
        PdbError::DbiSignature(_) => 613,
        PdbError::DbiVersion(_) => 614,
        PdbError::DbiParts { .. } => 615,
        PdbError::SectionHeaders(_) => 616,
        PdbError::RecordSize { .. } => 617,
        PdbError::RecordTruncated { .. } => 618,
        PdbError::Name(_) => 619,
        PdbError::ModuleSymbols { .. } => 620,
        PdbError::ModuleSignature(_) => 621,
        PdbError::SymbolsSize => 622,
        PdbError::NamesSignature(_) => 623,
        PdbError::ContributionsVersion(_) => 624,
        PdbError::ContributionsSize(_) => 625,
        PdbError::Annotation(_) => 626,
        PdbError::InlineDepth => 627,
        PdbError::Room { .. } => ROOM,
    }
}

/// Writes a value to `out` and returns `DONE`, or returns the number of an error and leaves `out` unchanged.
pub fn hand_out_pdb<T: Copy>(given: Result<T>, out: &mut T) -> u32
    ensures { PdbHandsOut result out.old out.new (pdb_answer given) }
{
    match given {
        Ok(value) => {
            *out = value;
            DONE
        }
        Err(error) => number_of_pdb(&error),
    }
}

/// The same of what may be absent: then returns `NOTHING`.
pub fn hand_out_pdb_if<T: Copy>(given: Result<Option<T>>, out: &mut T) -> u32
    ensures { PdbHandsOutIf result out.old out.new (pdb_answer given) }
{
    match given {
        Ok(Some(value)) => {
            *out = value;
            DONE
        }
        Ok(None) => NOTHING,
        Err(error) => number_of_pdb(&error),
    }
}

/// A step's error as its number.
#[inline(always)]
pub fn numbered_pdb<T>(given: Result<Option<T>>) -> std::result::Result<Option<T>, u32>
    ensures { result ≡ by_number pdb_number (pdb_answer given) }
{
    match given {
        Ok(value) => Ok(value),
        Err(error) => Err(number_of_pdb(&error)),
    }
}

/// The bytes of a range of a stream. `Short` where it is not inside them.
pub fn part_of<'a>(bytes: &'a [u8], range: &Range) -> Result<&'a [u8]>
    ensures { PdbReturns (λ s. s.now) result (part_of bytes.entry.now range.now) }
{
    match slice_at(bytes, range.offset as usize, range.length as usize) {
        Ok(part) => Ok(part),
        // Callers get the error's number alone.
        Err(_) => Err(PdbError::Short {
            needed: 0,
            length: 0,
        }),
    }
}

/// The first bytes of a stream, as many as there is room for.
#[tactic(auto, using(pe_pdb::proofs::StreamBytes::length_stream))]
fn head_of<'r>(stream: &Stream<'_>, room: &'r mut [u8]) -> Result<&'r [u8]>
    ensures { PdbReturns (λ s. s.now) result (Ok (head_of (stream_view stream.now) (length room.old))) }
{
    let count = stream.len().min(room.len());
    let head = room.split_at_mut(count).0;
    stream.read_at(0, head)?;
    Ok(head)
}

/// The head of the info stream.
fn info_in(msf: &Msf<'_>) -> Result<PdbInfo>
    ensures { pdb_answer result ≡ info_in (msf_view msf.now) }
{
    let stream = msf.stream(INFO_STREAM)?;
    let mut room = [0; SIZE_OF_INFO];
    PdbInfo::parse(head_of(&stream, &mut room)?)
}

/// What a header and the numbers after its parts say.
fn streams_by(header: DbiHeader, numbers: &[u8]) -> DbiStreams
    ensures { result ≡ dbi_streams header numbers.now }
{
    DbiStreams {
        header,
        section_headers: debug_stream(numbers, DEBUG_SECTION_HEADERS).unwrap_or(NO_STREAM),
        original_section_headers: debug_stream(numbers, DEBUG_ORIGINAL_SECTION_HEADERS).unwrap_or(
            NO_STREAM,
        ),
        omap_to_source: debug_stream(numbers, DEBUG_OMAP_TO_SOURCE).unwrap_or(NO_STREAM),
        omap_from_source: debug_stream(numbers, DEBUG_OMAP_FROM_SOURCE).unwrap_or(NO_STREAM),
    }
}

/// What the header of the DBI stream and its last part say.
#[tactic(auto, using(pe_pdb::proofs::StreamBytes::length_stream))]
fn dbi_in(msf: &Msf<'_>) -> Result<DbiStreams>
    ensures { pdb_answer result ≡ dbi_in (msf_view msf.now) }
{
    let stream = msf.stream(DBI_STREAM)?;
    let mut room = [0; SIZE_OF_HEADER as usize];
    let header = DbiHeader::parse(head_of(&stream, &mut room)?, stream.len())?;
    let mut numbers = [0; SIZE_OF_NUMBERS];
    let count = (header.debug_header_size as usize).min(SIZE_OF_NUMBERS);
    let numbers = numbers.split_at_mut(count).0;
    stream.read_at(header.debug_start(), numbers)?;
    Ok(streams_by(header, numbers))
}

/// What a PDB says of itself, where its DBI stream is read.
fn with_dbi(pdb: Pdb, dbi: &DbiStreams) -> Pdb
    ensures { result ≡ with_dbi pdb dbi.now }
{
    let header = dbi.header;
    Pdb {
        modules: Range {
            offset: SIZE_OF_HEADER,
            length: u64::from(header.modules_size),
        },
        contributions: Range {
            offset: SIZE_OF_HEADER + u64::from(header.modules_size),
            length: u64::from(header.contributions_size),
        },
        dbi_age: header.age,
        machine: header.machine,
        flags: header.flags,
        build: header.build,
        symbol_stream: header.symbol_stream,
        section_headers: dbi.section_headers,
        original_section_headers: dbi.original_section_headers,
        omap_to_source: dbi.omap_to_source,
        omap_from_source: dbi.omap_from_source,
        ..pdb
    }
}

/// The same, by what is read of the DBI stream.
fn pdb_reported(header: &SuperBlock, streams: u32, info: &PdbInfo, dbi: &Result<DbiStreams>) -> Pdb
    ensures { result ≡ pdb_reported header.now streams info.now (pdb_answer dbi.now) }
{
    let dbi_result = match dbi {
        Ok(_) => DONE,
        Err(error) => number_of_pdb(error),
    };
    let pdb = Pdb {
        guid: info.guid,
        modules: NO_BYTES,
        contributions: NO_BYTES,
        version: info.version,
        time_stamp: info.time_stamp,
        age: info.age,
        dbi_age: 0,
        block_size: header.block_size,
        number_of_blocks: header.number_of_blocks,
        number_of_streams: streams,
        dbi_result,
        machine: 0,
        flags: 0,
        build: 0,
        symbol_stream: NO_STREAM,
        section_headers: NO_STREAM,
        original_section_headers: NO_STREAM,
        omap_to_source: NO_STREAM,
        omap_from_source: NO_STREAM,
    };
    match dbi {
        Ok(dbi) => with_dbi(pdb, dbi),
        Err(_) => pdb,
    }
}

pub fn pdb_at(bytes: &[u8]) -> Result<Pdb>
    ensures { pdb_answer result ≡ pdb_at bytes.now }
{
    let header = SuperBlock::parse(bytes)?;
    let msf = Msf::parse(bytes)?;
    let info = info_in(&msf)?;
    let streams = msf.streams() as u32;
    Ok(pdb_reported(&header, streams, &info, &dbi_in(&msf)))
}

/// The stream with an index, by the starts of all, or without them.
pub fn stream_at<'a>(bytes: &'a [u8], starts: &[u64], index: u32) -> Result<Stream<'a>>
    ensures { PdbReturns stream_view result (stream_at bytes.entry.now starts.now index) }
{
    let msf = Msf::parse(bytes)?;
    match starts.get(index as usize) {
        Some(start) => msf.stream_from(index, *start),
        None => msf.stream(index),
    }
}

/// The range of the file that has a stream, if its blocks follow one another.
pub fn stream_range(bytes: &[u8], starts: &[u64], index: u32) -> Result<Option<Range>>
    ensures { pdb_answer result ≡ stream_range bytes.now starts.now index }
{
    let stream = stream_at(bytes, starts, index)?;
    Ok(some_range(stream.contiguous()))
}

/// Whether a PDB is that of an image with a key.
pub fn is_pdb_of(key: &SymbolKey, pdb: &Pdb) -> bool
    ensures { IsTrue result ↔ IsPdbOf key.now pdb.now }
{
    key.guid == pdb.guid && key.age == pdb.dbi_age
}
