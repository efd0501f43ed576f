//! Version information written whole, of records and without memory.

ghost use Rattle.pe_version.specs.VersionRecords.{records_version};
ghost use Rattle.pe_version.specs.VersionRefusals.{VersionReturns, VersionReturnsWritten, length_of, written};

use crate::error::VersionError;
use crate::measure::measured;
use crate::put::put_version;
use crate::record::{VersionRecords, require_records};
use pe_core::require_room;

/// The length of what `write_version` writes of these records. Errors: those of `write_version`, but for the buffer's.
#[tactic(auto, using(crate::proofs::Measures::returns_by, crate::proofs::Records::fit_is, crate::proofs::Records::unfit_refused))]
pub fn version_len(value: &VersionRecords<'_>) -> Result<usize, VersionError>
    ensures { VersionReturns result (length_of (records_version value.now)) }
{
    require_records(value)?;
    measured(value)
}

/// Writes version information, the content of a resource of the type `RT_VERSION`, at the start of `out`, and returns its length.
/// The bytes of `out` after it stay as they were. It takes no memory; each name is read three times, each text is copied once.
///
/// Errors, in this order, each of which leaves `out` as it was:
/// - `Image` with `Short` if a range of a record does not lie in its array;
/// - `TooLong` if the blocks of the tables have more than 65,535 bytes by the lengths of their names and texts;
/// - those of `block_len` of the first block that is refused, each block after those that it has;
/// - `Image` with `WriteFit` if it does not fit into `out`.
pub fn write_version(value: &VersionRecords<'_>, out: &mut [u8]) -> Result<usize, VersionError>
    ensures { VersionReturnsWritten result
        (written (records_version value.now) out.old) out.old out.new }
{
    let size = version_len(value)?;
    require_room(out, 0, size)?;
    put_version(out, value);
    Ok(size)
}
