//! The ends of pieces: a buffer has to reach to the greatest of them.

ghost use Rattle.std.specs.Prelude.{◌+◌};
ghost use Rattle.pe_core.specs.Refusals.{Returns};
ghost use Rattle.pe_image.specs.WritingSteps.{possible};

use pe_core::{Error, Reason, Result};

/// The greatest length of a buffer in bytes.
const LONGEST: usize = isize::MAX as usize;

/// The end of a piece of `size` bytes at `offset`. `WriteFit` if no buffer is so long.
pub fn piece_end(offset: usize, size: usize) -> Result<usize>
    ensures { Returns result (possible (offset + size) (offset + size)) }
{
    // Subtracted, not added: `offset + size` may overflow.
    if size <= LONGEST && offset <= LONGEST - size {
        Ok(offset + size)
    } else {
        Err(Error::Malformed(Reason::WriteFit {
            end: (offset as u64).saturating_add(size as u64),
            length: LONGEST,
        }))
    }
}
