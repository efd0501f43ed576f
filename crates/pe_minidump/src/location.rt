//! Where the parts of a minidump stand: as many bytes from an offset of the file on as a location says
//! (`MINIDUMP_LOCATION_DESCRIPTOR`).
//!
//! <https://learn.microsoft.com/windows/win32/api/minidumpapiset/ns-minidumpapiset-minidump_location_descriptor>

ghost use Rattle.std.specs.Prelude.{◌≡◌, ◌+◌, ◌≤◌, ◌∷◌, [], length};
ghost use Rattle.pe_core.specs.Bytes.{holds, range};
ghost use Rattle.pe_core.specs.Refusals.{outcome};
ghost use Rattle.pe_minidump.specs.Dumps.{located};
ghost use Rattle.pe_minidump.specs.Records.{location_at};
ghost use Rattle.pe_minidump.specs.Refusals.{DumpReturns, Short};

use crate::error::{DumpError, Result};
use pe_core::read_u32;

/// Where bytes stand in the file. A location of no bytes says that there are none; one that leads past the end of the file is
/// refused as any other.
#[repr(C)]
#[derive(Clone, Copy, Debug, PartialEq)]
pub struct Location {
    /// How many bytes they are (`DataSize`).
    pub size: u32,
    /// The offset of the first, from the start of the file (`Rva`).
    pub rva: u32,
}

impl Location {
    /// The location at `offset`, whose 8 bytes the caller knows to lie in `bytes`.
    #[tactic(auto, unfolding(crate::specs::Records::location_at))]
    pub(crate) fn at(bytes: &[u8], offset: usize) -> Location
        requires { offset + 8 ≤ length bytes.now }
        ensures { result ≡ location_at bytes.now offset }
    {
        Location {
            size: read_u32(bytes, offset),
            rva: read_u32(bytes, offset + 4),
        }
    }
}

/// Returns `Short` unless there are `needed` bytes.
pub(crate) fn require_fields(bytes: &[u8], needed: usize) -> Result<()>
    ensures { DumpReturns (λ u. u) result (outcome ((holds bytes.now 0 needed, Short) ∷ []) tt) }
{
    if bytes.len() < needed {
        return Err(DumpError::Short {
            needed,
            length: bytes.len(),
        });
    }
    Ok(())
}

/// So many bytes from an offset of a file on. Error: `Location` if they do not all lie in it.
pub fn located(bytes: &[u8], rva: u64, size: u64) -> Result<&[u8]>
    ensures { DumpReturns (λ s. s.now) result (located bytes.entry.now rva size) }
{
    let length = bytes.len() as u64;
    if length < size || length - size < rva {
        return Err(DumpError::Location {
            rva,
            size,
            length: bytes.len(),
        });
    }
    Ok(&bytes[rva as usize..(rva + size) as usize])
}
