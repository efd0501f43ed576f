//! Frequent unwind codes: those that pushed a register or allocated less than 512 KiB. Nearly all prologs have no others
//! ([Microsoft's page](https://learn.microsoft.com/cpp/build/exception-handling-x64#unwind-codes)). They are undone by their bytes,
//! without what others take: neither the frame register nor an interrupt depends on them.

ghost use Rattle.std.specs.Prelude.{◌<◌, ℕ, IfSome, None};
ghost use Rattle.pe_frame.specs.InPlace.{changed};
ghost use Rattle.pe_frame.specs.Survey.{IsFrequent, UndoesFirst};

use crate::error::FrameError;
use crate::memory::Memory;
use crate::registers::Registers;
use crate::undo::undo;
use pe_core::read_u16;
use pe_unwind::{Register, UnwindOperation};

/// The size of a slot in bytes.
pub(crate) const SIZE_OF_SLOT: usize = 2;

/// The opcodes of these codes, by winnt.h's names.
const UWOP_PUSH_NONVOL: u8 = 0;

const UWOP_ALLOC_LARGE: u8 = 1;

const UWOP_ALLOC_SMALL: u8 = 2;

/// The operation of the code at the start of the bytes, and its size, if it is a frequent one.
#[inline(always)]
pub(crate) fn frequent_code(bytes: &[u8]) -> Option<(UnwindOperation, usize)>
    ensures code { IfSome result (λ found. IsFrequent bytes.now found.0 found.1) }
    ensures some { IfSome result (λ found. 0 < found.1) }
{
    if bytes.len() < SIZE_OF_SLOT {
        return None;
    }
    let info = bytes[1] / 16;
    if bytes[1] % 16 == UWOP_PUSH_NONVOL {
        let push = UnwindOperation::PushNonVolatile(Register(info));
        return Some((push, SIZE_OF_SLOT));
    }
    if bytes[1] % 16 == UWOP_ALLOC_SMALL {
        let size = u32::from(info) * 8 + 8;
        return Some((UnwindOperation::Alloc(size), SIZE_OF_SLOT));
    }
    // Its info is 0 where one more slot has the size.
    if bytes.len() >= 2 * SIZE_OF_SLOT && bytes[1] == UWOP_ALLOC_LARGE {
        let size = u32::from(read_u16(bytes, SIZE_OF_SLOT)) * 8;
        return Some((UnwindOperation::Alloc(size), 2 * SIZE_OF_SLOT));
    }
    None
}

/// What is left of the codes of a record after the first of them.
#[derive(Drop)]
pub(crate) struct FirstUndone<'a> {
    /// The bytes of the others.
    pub rest: &'a [u8],
    /// Whether the last of the first was refused.
    pub left: Result<(), FrameError>,
}

/// Makes the registers those before the frequent codes with which a record starts, all of which have run, up to one that is refused.
#[inline(always)]
pub(crate) fn undo_frequent<'a, M: Memory>(
    codes: &'a [u8],
    base: u64,
    registers: &mut Registers,
    memory: &M,
) -> FirstUndone<'a>
    ensures { (v f : ℕ) → UndoesFirst (M.word memory.now) base None
        (record { content = codes.entry.now; version = v; frame = f })
        (record { content = result.rest.now; version = v; frame = f })
        registers.old (changed result.left registers.new) }
{
    let mut rest = codes;
    while let Some((operation, size)) = frequent_code(rest) {
        rest = rest.split_at(size).1;
        if let Err(error) = undo(operation, base, registers, memory) {
            let left = Err(error);
            return FirstUndone { rest, left };
        }
    }
    let left = Ok(());
    FirstUndone { rest, left }
}
