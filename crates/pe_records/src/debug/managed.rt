//! The debug records that compilers of .NET write beside CodeView: the PDB itself, compressed
//! (`IMAGE_DEBUG_TYPE_EMBEDDEDPORTABLEPDB`), and a checksum of the PDB file (`IMAGE_DEBUG_TYPE_PDBCHECKSUM`). Layouts:
//! [PE-COFF of .NET](https://github.com/dotnet/runtime/blob/main/docs/design/specs/PE-COFF.md#debug-directory).
//!
//! A caller finds an entry of the type by `ImageDebugDirectoryIterator::find_type` or `DebugData::iter`, and parses its record.

ghost use Rattle.std.specs.Prelude.{◌≡◌, ◌==◌, ◌<◌, length, position, IfSome};
ghost use Rattle.pe_core.specs.Options.{default_options};
ghost use Rattle.pe_core.specs.Refusals.{ReturnsAs};
ghost use Rattle.pe_records.specs.ManagedDebug.{embedded_view, embedded_of, embedded_record, checksum_view, checksum_in, checksum_of, checksum_record};

use crate::debug::ImageDebugDirectory;
use pe_core::{Error, ParseOptions, Reason, Result, data_at, read_u32, require_bytes};

/// The signature of an embedded PDB, `MPDB`.
pub const EMBEDDED_PDB_MAGIC: u32 = 0x4244_504D;

/// The size of an embedded PDB's signature and size in bytes.
const SIZE_OF_EMBEDDED_HEAD: u32 = 8;

/// A portable PDB in the image itself (`IMAGE_DEBUG_TYPE_EMBEDDEDPORTABLEPDB`), compressed by Deflate.
#[derive(Clone, Copy, Debug, PartialEq)]
pub struct EmbeddedPdb<'a> {
    /// The size of the PDB in bytes, once it is decompressed, as the record states it.
    pub uncompressed_size: u32,
    /// The PDB, compressed: raw Deflate data, all bytes up to the end of the record.
    pub compressed: &'a [u8],
}

impl<'a> EmbeddedPdb<'a> {
    /// The record at a file offset, in `size` bytes.
    #[tactic(auto, unfolding(crate::specs::ManagedDebug::embedded_record))]
    fn at(bytes: &'a [u8], offset: usize, size: u32) -> Result<Self>
        ensures { ReturnsAs embedded_view result (embedded_record bytes.entry.now offset size) }
    {
        if size < SIZE_OF_EMBEDDED_HEAD {
            return Err(Error::Malformed(Reason::DebugSize(size)));
        }
        require_bytes(bytes, offset, 8)?;
        let signature = read_u32(bytes, offset);
        if signature != EMBEDDED_PDB_MAGIC {
            return Err(Error::BadMagic(u64::from(signature)));
        }
        let length = size as usize - 8;
        let compressed = data_at(bytes, offset + 8, length, Reason::DebugData(size))?;
        Ok(EmbeddedPdb {
            uncompressed_size: read_u32(bytes, offset + 4),
            compressed,
        })
    }

    /// The embedded PDB of the entry, with the default options. Errors: those of `parse_with_opts`.
    pub fn parse(bytes: &'a [u8], idd: &ImageDebugDirectory) -> Result<Self>
        ensures { ReturnsAs embedded_view result
            (embedded_of default_options bytes.entry.now idd.now) }
    {
        EmbeddedPdb::parse_with_opts(bytes, idd, &ParseOptions::default())
    }

    /// The embedded PDB of the entry. `bytes` is the whole file. Both modes refuse the same.
    ///
    /// Errors, in this order: `DebugSize` if the entry's size is below 8; `Short` if the first 8 bytes are not in the file;
    /// `BadMagic` if they do not start with `MPDB`; `DebugData` if the compressed data are not in the file.
    pub fn parse_with_opts(
        bytes: &'a [u8],
        idd: &ImageDebugDirectory,
        opts: &ParseOptions,
    ) -> Result<Self>
        ensures { ReturnsAs embedded_view result (embedded_of opts.now bytes.entry.now idd.now) }
    {
        EmbeddedPdb::at(bytes, idd.record_offset(opts) as usize, idd.size_of_data)
    }
}

/// A checksum of the PDB file (`IMAGE_DEBUG_TYPE_PDBCHECKSUM`), of its bytes with zeros in place of the PDB's id.
#[derive(Clone, Copy, Debug, PartialEq)]
pub struct PdbChecksum<'a> {
    /// The name of the algorithm without the zero that ends it, as `SHA256`: UTF-8, which is not tested.
    pub algorithm: &'a [u8],
    /// The checksum: all bytes up to the end of the record.
    pub checksum: &'a [u8],
}

/// The index of the first zero.
fn first_zero(bytes: &[u8]) -> Option<usize>
    ensures result { result ≡ position (λ c. c == 0) bytes.now }
    ensures below { IfSome result (λ end. end < length bytes.now) }
{
    bytes.iter().position(|byte| *byte == 0)
}

impl<'a> PdbChecksum<'a> {
    /// The record of these bytes, whose size is `size`.
    fn of_data(bytes: &'a [u8], size: u32) -> Result<Self>
        ensures { ReturnsAs checksum_view result (checksum_in bytes.entry.now) }
    {
        match first_zero(bytes) {
            Some(end) => Ok(PdbChecksum {
                algorithm: &bytes[..end],
                checksum: &bytes[end + 1..],
            }),
            None => Err(Error::Malformed(Reason::DebugSize(size))),
        }
    }

    /// The record at a file offset, in `size` bytes.
    #[tactic(auto, unfolding(crate::specs::ManagedDebug::checksum_record))]
    fn at(bytes: &'a [u8], offset: usize, size: u32) -> Result<Self>
        ensures { ReturnsAs checksum_view result (checksum_record bytes.entry.now offset size) }
    {
        let data = data_at(bytes, offset, size as usize, Reason::DebugData(size))?;
        PdbChecksum::of_data(data, size)
    }

    /// The checksum of the entry, with the default options. Errors: those of `parse_with_opts`.
    pub fn parse(bytes: &'a [u8], idd: &ImageDebugDirectory) -> Result<Self>
        ensures { ReturnsAs checksum_view result
            (checksum_of default_options bytes.entry.now idd.now) }
    {
        PdbChecksum::parse_with_opts(bytes, idd, &ParseOptions::default())
    }

    /// The checksum of the entry. `bytes` is the whole file. Both modes refuse the same.
    ///
    /// Errors, in this order: `DebugData` if the record is not in the file; `DebugSize` if no zero in it ends the name.
    pub fn parse_with_opts(
        bytes: &'a [u8],
        idd: &ImageDebugDirectory,
        opts: &ParseOptions,
    ) -> Result<Self>
        ensures { ReturnsAs checksum_view result (checksum_of opts.now bytes.entry.now idd.now) }
    {
        PdbChecksum::at(bytes, idd.record_offset(opts) as usize, idd.size_of_data)
    }
}
