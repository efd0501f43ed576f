//! Version information written: whole, of records with their names and texts as ranges of one array of bytes; or a block at a
//! time, where a caller writes the innermost blocks first, one after the other, and passes their bytes to the block that has them.
//! https://learn.microsoft.com/windows/win32/menurc/vs-versioninfo

ghost use Rattle.std.specs.Prelude.{◌≡◌};
ghost use Rattle.pe_version.specs.VersionRefusals.{block_view, version_kind_of};
ghost use Rattle.calls_write.specs.ResourceEdits.{block_at, version_numbered, version_number};
ghost use Rattle.calls_base.specs.WrittenFiles.{NumberReturns, NumberReturnsWritten, length_numbered, written_numbered};
ghost use Rattle.pe_version.specs.VersionRecords.{records_version};

use calls_base::results::number_of;
use pe_version::{
    NewBlock, VersionError, VersionRecords, block_len, version_len, write_block, write_version,
};

/// The number of an error of a version block. It stays the same from version to version. `tools/make_errors` writes the arms.
fn number_of_version(error: &VersionError) -> u32
    ensures { result ≡ version_number (version_kind_of error.now) }
{
    match error {
        VersionError::Image(error) => number_of(error),
        VersionError::Key => 468,
        VersionError::Text => 469,
        VersionError::TooLong(_) => 470,
    }
}

/// The length of a block.
pub fn block_length(block: &NewBlock<'_>) -> Result<u64, u32>
    ensures { NumberReturns (λ n. n) result (length_numbered (block_at (block_view block.now))) }
{
    match block_len(block) {
        Ok(length) => Ok(length as u64),
        Err(error) => Err(number_of_version(&error)),
    }
}

pub fn write_to(block: &NewBlock<'_>, room: &mut [u8]) -> Result<usize, u32>
    ensures { NumberReturnsWritten result
        (written_numbered (block_at (block_view block.now)) room.old) room.old room.new }
{
    match write_block(block, room) {
        Ok(length) => Ok(length),
        Err(error) => Err(number_of_version(&error)),
    }
}

/// The length of version information.
#[tactic(auto, using(crate::proofs::ResourceEdits::version_length_refused))]
pub fn version_length(value: &VersionRecords) -> Result<u64, u32>
    ensures { NumberReturns
        (λ n. n) result (length_numbered (version_numbered (records_version value.now))) }
{
    match version_len(value) {
        Ok(length) => Ok(length as u64),
        Err(error) => Err(number_of_version(&error)),
    }
}

pub fn version_to(value: &VersionRecords, room: &mut [u8]) -> Result<usize, u32>
    ensures { NumberReturnsWritten result
        (written_numbered (version_numbered (records_version value.now)) room.old)
        room.old room.new }
{
    match write_version(value, room) {
        Ok(length) => Ok(length),
        Err(error) => Err(number_of_version(&error)),
    }
}
