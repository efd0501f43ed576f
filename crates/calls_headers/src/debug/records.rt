//! Debug records, each of one entry of the debug directory: which PDB file has the symbols of an image, how it was built. A
//! record is read from its entry alone, whatever the other entries lead to.
//! https://learn.microsoft.com/windows/win32/debug/pe-format#debug-type

ghost use Rattle.std.specs.Prelude.{◌≡◌, ◌≤◌, ◌^◌};
ghost use Rattle.pe_core.specs.Refusals.{answer_of};
ghost use Rattle.calls_headers.specs.Debug.{characteristics_of, checksum_of, codeview_at, embedded_of, entry_of, features_of, key_of, part_after, pdb20_of, pogo_of, repro_of};

use calls_base::ranges::{NO_BYTES, Range, slice_of};
use calls_base::results::options;
use pe_core::Result;
use pe_records::{
    CodeviewPDB20DebugInfo, CodeviewPDB70DebugInfo, ExDllCharacteristicsInfo,
    IMAGE_DEBUG_TYPE_CODEVIEW, ImageDebugDirectory, POGOInfo, ReproInfo, VCFeatureInfo,
};

/// A CodeView record of PDB 7.0 ("RSDS"): a symbol server files an image's PDB under its name, GUID and age.
#[repr(C)]
#[derive(Clone, Copy)]
pub struct SymbolKey {
    /// As in the file: little-endian `u32`, `u16`, `u16`, then 8 bytes.
    pub guid: [u8; 16],
    /// Grows by one each time the PDB is written.
    pub age: u32,
    /// 0.
    pub spare: u32,
    /// The rest of the record: the name of the PDB file, with the zeros after it.
    pub name: Range,
}

/// A CodeView record of PDB 2.0 ("NB10").
#[repr(C)]
#[derive(Clone, Copy)]
pub struct Pdb20 {
    /// The rest of the record: the name of the PDB file, with the zeros after it.
    pub name: Range,
    /// 0 where the symbols are in a file of their own.
    pub offset: u32,
    /// Time stamp of the PDB, in seconds since 1970.
    pub signature: u32,
    /// Grows by one each time the PDB is written.
    pub age: u32,
    /// 0.
    pub spare: u32,
}

/// A Repro record, which marks a reproducible build: the same sources build the same image.
#[repr(C)]
#[derive(Clone, Copy)]
pub struct Repro {
    /// Empty where `has_hash` is 0.
    pub hash: Range,
    /// 1 where there is a hash; else 0, and the entry's time stamp is a hash.
    pub has_hash: u32,
    /// 0.
    pub spare: u32,
}

/// A POGO record, of profile-guided optimization: the parts of the image's sections.
#[repr(C)]
#[derive(Clone, Copy)]
pub struct Pogo {
    /// A walk for `pe_c_next_pogo_entry`, at its start.
    pub entries: Range,
    /// 0x4C544347 (LTCG) or 0x50475500 (PGU).
    pub signature: u32,
    /// 0.
    pub spare: u32,
}

/// A portable PDB in the image itself, of .NET.
#[repr(C)]
#[derive(Clone, Copy)]
pub struct EmbeddedPdb {
    /// The PDB, compressed: raw Deflate data.
    pub compressed: Range,
    /// In bytes, once it is decompressed, as the record states it.
    pub uncompressed_size: u32,
    /// 0.
    pub spare: u32,
}

/// A checksum of the PDB file, of .NET: of its bytes with zeros in place of the PDB's id.
#[repr(C)]
#[derive(Clone, Copy)]
pub struct PdbChecksum {
    /// The name of the algorithm, as "SHA256", without the zero that ends it.
    pub algorithm: Range,
    /// The rest of the record.
    pub checksum: Range,
}

/// Bytes before the name in a record of PDB 7.0.
const PDB70_HEADER: u64 = 24;

/// Bytes before the name in a record of PDB 2.0.
const PDB20_HEADER: u64 = 16;

/// Bytes before the hash in a Repro record.
const REPRO_HEADER: u64 = 4;

/// Bytes before the entries in a POGO record.
const POGO_HEADER: u64 = 4;

/// Bytes before the compressed data in an embedded PDB.
const EMBEDDED_HEADER: u64 = 8;

/// The most bytes that a debug record can have.
const LONGEST_RECORD: usize = 0xFFFF_FFFF;

/// The range of a part, which follows so many bytes in the record of an entry.
#[inline(always)]
fn part_after(entry: &ImageDebugDirectory, mode: u32, header: u64, part: &[u8]) -> Range
    requires { header ≤ 2 ^ 63 }
    ensures { result ≡ part_after mode entry.now header part.now }
{
    Range {
        offset: u64::from(entry.record_offset(&options(mode))) + header,
        length: part.len() as u64,
    }
}

/// The symbol key of an entry's record.
#[inline(always)]
pub fn key_of(bytes: &[u8], mode: u32, entry: &ImageDebugDirectory) -> Result<Option<SymbolKey>>
    ensures { answer_of result ≡ key_of bytes.now mode entry.now }
{
    match CodeviewPDB70DebugInfo::parse_with_opts(bytes, entry, &options(mode))? {
        Some(info) => Ok(Some(SymbolKey {
            guid: info.signature,
            age: info.age,
            spare: 0,
            name: part_after(entry, mode, PDB70_HEADER, info.filename),
        })),
        None => Ok(None),
    }
}

/// The record of PDB 2.0 of an entry.
pub fn pdb20_of(bytes: &[u8], mode: u32, entry: &ImageDebugDirectory) -> Result<Option<Pdb20>>
    ensures { answer_of result ≡ pdb20_of bytes.now mode entry.now }
{
    match CodeviewPDB20DebugInfo::parse_with_opts(bytes, entry, &options(mode))? {
        Some(info) => Ok(Some(Pdb20 {
            name: part_after(entry, mode, PDB20_HEADER, info.filename),
            offset: info.codeview_offset,
            signature: info.signature,
            age: info.age,
            spare: 0,
        })),
        None => Ok(None),
    }
}

/// The counts of VC features of an entry's record.
pub fn features_of(
    bytes: &[u8],
    mode: u32,
    entry: &ImageDebugDirectory,
) -> Result<Option<VCFeatureInfo>>
    ensures { answer_of result ≡ features_of bytes.now mode entry.now }
{
    Ok(Some(VCFeatureInfo::parse_with_opts(bytes, entry, &options(mode))?))
}

/// The extended DLL characteristics of an entry's record.
pub fn characteristics_of(
    bytes: &[u8],
    mode: u32,
    entry: &ImageDebugDirectory,
) -> Result<Option<u32>>
    ensures { answer_of result ≡ characteristics_of bytes.now mode entry.now }
{
    let info = ExDllCharacteristicsInfo::parse_with_opts(bytes, entry, &options(mode))?;
    Ok(Some(info.characteristics_ex))
}

/// The Repro record of an entry.
pub fn repro_of(bytes: &[u8], mode: u32, entry: &ImageDebugDirectory) -> Result<Option<Repro>>
    ensures { answer_of result ≡ repro_of bytes.now mode entry.now }
{
    match ReproInfo::parse_with_opts(bytes, entry, &options(mode))? {
        ReproInfo::TimeDateStamp(_) => Ok(Some(Repro {
            hash: NO_BYTES,
            has_hash: 0,
            spare: 0,
        })),
        ReproInfo::Buffer { buffer, .. } => Ok(Some(Repro {
            hash: part_after(entry, mode, REPRO_HEADER, buffer),
            has_hash: 1,
            spare: 0,
        })),
    }
}

/// The POGO record of an entry.
pub fn pogo_of(bytes: &[u8], mode: u32, entry: &ImageDebugDirectory) -> Result<Option<Pogo>>
    ensures { answer_of result ≡ pogo_of bytes.now mode entry.now }
{
    match POGOInfo::parse_with_opts(bytes, entry, &options(mode))? {
        Some(info) => Ok(Some(Pogo {
            entries: part_after(entry, mode, POGO_HEADER, info.bytes),
            signature: info.signature,
            spare: 0,
        })),
        None => Ok(None),
    }
}

/// The embedded PDB of an entry.
pub fn embedded_of(
    bytes: &[u8],
    mode: u32,
    entry: &ImageDebugDirectory,
) -> Result<Option<EmbeddedPdb>>
    ensures { answer_of result ≡ embedded_of bytes.now mode entry.now }
{
    let info = pe_records::EmbeddedPdb::parse_with_opts(bytes, entry, &options(mode))?;
    Ok(Some(EmbeddedPdb {
        compressed: part_after(entry, mode, EMBEDDED_HEADER, info.compressed),
        uncompressed_size: info.uncompressed_size,
        spare: 0,
    }))
}

/// The checksum of the PDB of an entry. A zero stands between the name of the algorithm and the checksum.
pub fn checksum_of(
    bytes: &[u8],
    mode: u32,
    entry: &ImageDebugDirectory,
) -> Result<Option<PdbChecksum>>
    ensures { answer_of result ≡ checksum_of bytes.now mode entry.now }
{
    let info = pe_records::PdbChecksum::parse_with_opts(bytes, entry, &options(mode))?;
    let header = info.algorithm.len() as u64 + 1;
    Ok(Some(PdbChecksum {
        algorithm: part_after(entry, mode, 0, info.algorithm),
        checksum: part_after(entry, mode, header, info.checksum),
    }))
}

/// An entry of the debug directory whose record starts at offset 0 and has so many bytes.
fn entry_of(size_of_data: u32) -> ImageDebugDirectory
    ensures { result ≡ entry_of size_of_data }
{
    ImageDebugDirectory {
        characteristics: 0,
        time_date_stamp: 0,
        major_version: 0,
        minor_version: 0,
        data_type: IMAGE_DEBUG_TYPE_CODEVIEW,
        size_of_data,
        address_of_raw_data: 0,
        pointer_to_raw_data: 0,
    }
}

/// The key of the CodeView record at a range.
pub fn codeview(bytes: &[u8], range: &Range) -> Result<Option<SymbolKey>>
    ensures { answer_of result ≡ codeview_at bytes.now range.now }
{
    let record = slice_of(bytes, range)?;
    let size = record.len().min(LONGEST_RECORD) as u32;
    match CodeviewPDB70DebugInfo::parse(record, &entry_of(size))? {
        None => Ok(None),
        Some(info) => Ok(Some(SymbolKey {
            guid: info.signature,
            age: info.age,
            spare: 0,
            name: Range {
                offset: range.offset + PDB70_HEADER,
                length: info.filename.len() as u64,
            },
        })),
    }
}
