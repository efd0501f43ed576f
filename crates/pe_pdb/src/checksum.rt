//! The source files of a module ([layout](https://llvm.org/docs/PDB/ModiStream.html)), the subsection `DEBUG_S_FILECHKSMS` of its
//! lines: for each file the offset of its name in `Names`, and a checksum, by which a debugger knows whether a file is the one that
//! was compiled. Lines name a file by the offset of its record in the content of this subsection.

ghost use Rattle.std.specs.Prelude.{◌≡◌};
ghost use Rattle.pe_pdb.specs.Checksums.{checksum_at, checksum_view};
ghost use Rattle.pe_pdb.specs.Refusals.{PdbReturns};

use crate::error::{Result, require_bytes, require_record};
use pe_core::{read_u8, read_u32};

/// How many bytes of a record come before the checksum.
const SIZE_OF_PREFIX: usize = 6;

/// A source file of a module.
#[derive(Clone, Copy)]
pub struct FileChecksum<'a> {
    /// Where its name starts, for `Names::name_at`.
    pub name_offset: u32,
    /// What the checksum is: 0 none, 1 MD5, 2 SHA-1, 3 SHA-256.
    pub kind: u8,
    /// The checksum; of no bytes where there is none.
    pub hash: &'a [u8],
}

impl<'a> FileChecksum<'a> {
    /// The file whose record is at an offset in the content of `DEBUG_S_FILECHKSMS`, as `LineBlock::file` has it. Errors, in order:
    /// `Short` if fewer than six bytes follow; `RecordTruncated` if the checksum passes the end.
    #[tactic(auto, unfolding(crate::specs::Checksums::checksum_at))]
    pub fn parse(content: &'a [u8], offset: usize) -> Result<FileChecksum<'a>>
        ensures { PdbReturns checksum_view result (checksum_at content.entry.now offset) }
    {
        require_bytes(content, offset, SIZE_OF_PREFIX)?;
        let start = offset + SIZE_OF_PREFIX;
        let size = usize::from(read_u8(content, offset + 4));
        require_record(content, offset, SIZE_OF_PREFIX + size)?;
        Ok(FileChecksum {
            name_offset: read_u32(content, offset),
            kind: read_u8(content, offset + 5),
            hash: &content[start..start + size],
        })
    }
}
