//! The inlined functions that have an offset of a procedure as one list, the innermost first, as a debugger shows them: what
//! `InlineFrames` walks over from the outermost. It stands in a room that the caller has. Compilers nest some 20.

ghost use Rattle.std.specs.Prelude.{length};
ghost use Rattle.pe_pdb.specs.InlineStacks.{inlined_at};
ghost use Rattle.pe_pdb.specs.Refusals.{PdbReturns};

use crate::error::{PdbError, Result};
use crate::inline_rows::InlineRow;
use crate::inline_walk::{InlineFrame, InlineFrames};

/// How many inlined functions an RVA may have, where a caller does not choose it.
pub const MOST_INLINED: usize = 64;

/// What stands in a room where no function was found.
pub const NO_INLINE_FRAME: InlineFrame = InlineFrame {
    record_offset: 0,
    inlinee: 0,
    row: InlineRow {
        offset: 0,
        length: 0,
        line: 0,
        file: None,
    },
};

/// The inlined functions that have an offset from the start of a procedure, the innermost first, by the offset of the procedure's record
/// in the symbols of its module. They stand at the end of the room, so that each goes before the one that it is in. Errors, in order:
/// those of `SymbolRecord::parse`, of the procedure; of the first record up to its end that is refused, those of
/// `SymbolRecord::parse`, `InlineSite::parse` and `InlineRows::row_at`, or `InlineDepth` if it is of one function more than the
/// room has place for.
pub fn inlined_at<'r>(
    bytes: &[u8],
    procedure: usize,
    offset: u32,
    room: &'r mut [InlineFrame],
) -> Result<&'r [InlineFrame]>
    ensures { PdbReturns (λ f. f.now) result (inlined_at (length room.old) bytes.now procedure offset) }
{
    let mut first = room.len();
    let mut walk = InlineFrames::new(bytes, procedure, offset)?;
    while let Some(frame) = walk.next() {
        let frame = frame?;
        if first == 0 {
            return Err(PdbError::InlineDepth);
        }
        first -= 1;
        room[first] = frame;
    }
    Ok(room.split_at(first).1)
}
