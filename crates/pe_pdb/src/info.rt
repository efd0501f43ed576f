//! The head of the [info stream](https://llvm.org/docs/PDB/PdbStream.html), stream 1: which PDB this is. An image names its PDB
//! by the GUID, and by the age of the DBI stream: that of the info stream may be greater, since tools raise it that change the
//! PDB alone.

ghost use Rattle.std.specs.Prelude.{◌≡◌};
ghost use Rattle.pe_pdb.specs.Info.{info_at, info_of, is_info_version};
ghost use Rattle.pe_pdb.specs.Refusals.{PdbReturns};

use crate::error::{PdbError, Result, require_bytes};
use pe_core::read_u32;

/// The index of the info stream.
pub const INFO_STREAM: u32 = 1;

/// The size of the head in bytes. Names of streams follow it.
const SIZE_OF_INFO: usize = 28;

/// The head of the info stream, 28 bytes.
#[repr(C)]
#[derive(Clone, Copy)]
pub struct PdbInfo {
    /// The version of the stream's layout, 20000404 in what linkers write.
    pub version: u32,
    /// When the PDB was made, in seconds since 1970, or a number of the linker's.
    pub time_stamp: u32,
    /// How often the PDB was written.
    pub age: u32,
    /// The GUID of the PDB, as it stands in memory.
    pub guid: [u8; 16],
}

/// Whether a stream of this version has a GUID: those of Visual C++ 7, 8, 11 and 14.
fn is_info_version(version: u32) -> bool
    ensures { result ≡ is_info_version version }
{
    matches!(version, 20000404 | 20030901 | 20091201 | 20140508)
}

impl PdbInfo {
    /// The head of the stream that has these bytes. Errors, in order: `Short` if there are fewer than 28; `InfoVersion`.
    #[tactic(auto, unfolding(crate::specs::Info::info_at))]
    pub fn parse(bytes: &[u8]) -> Result<PdbInfo>
        ensures { PdbReturns (λ i. i) result (info_of bytes.now) }
    {
        require_bytes(bytes, 0, SIZE_OF_INFO)?;
        let version = read_u32(bytes, 0);
        if !is_info_version(version) {
            return Err(PdbError::InfoVersion(version));
        }
        let mut guid = [0; 16];
        guid.copy_from_slice(&bytes[12..SIZE_OF_INFO]);
        Ok(PdbInfo {
            version,
            time_stamp: read_u32(bytes, 4),
            age: read_u32(bytes, 8),
            guid,
        })
    }
}
