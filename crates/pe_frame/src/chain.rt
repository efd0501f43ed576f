//! Chains of frame pointers, between unwind records and scans. Code without records may keep a frame pointer: rbp on x64, x29 on ARM64.
//! It leads to two words, the frame pointer of the caller and the return address, as `push rbp` and `mov rbp, rsp` leave them after a
//! call. So does code of Go, of compilers that are asked for it, and on ARM64 of
//! [Windows itself](https://learn.microsoft.com/cpp/build/arm64-windows-abi-conventions#integer-registers).
//!
//! Code that keeps none leaves that of its caller there, or any number. So what a chain leads to is a guess.

ghost use Rattle.std.specs.Prelude.{◌≡◌};
ghost use Rattle.pe_frame.specs.FrameRecords.{frame_record, is_higher, may_lead};

use crate::memory::{Memory, SIZE_OF_WORD};
use crate::scan::ReturnWords;

/// The bytes of a record: a frame pointer and a return address.
const SIZE_OF_RECORD: u64 = 2 * SIZE_OF_WORD;

/// What a record of a frame says of the caller.
#[derive(Drop)]
pub(crate) struct FrameRecord {
    /// The stack pointer after the return: the end of the record. On ARM64 that of the caller may be higher.
    pub stack_pointer: u64,
    /// The frame pointer.
    pub frame_pointer: u64,
    /// Where it goes on.
    pub address: u64,
}

/// Whether a frame pointer may lead to a record, whose return address is at or above the stack pointer.
fn may_lead(stack: u64, pointer: u64) -> bool
    ensures { result ≡ may_lead stack pointer }
{
    pointer <= u64::MAX - SIZE_OF_RECORD
        && pointer % SIZE_OF_WORD == 0
        && stack <= pointer + SIZE_OF_WORD
}

/// The record to which a frame pointer leads, if it does.
pub(crate) fn frame_record<R: ReturnWords, M: Memory>(
    returns: &R,
    memory: &M,
    stack: u64,
    pointer: u64,
) -> Option<FrameRecord>
    ensures { result ≡ frame_record (M.word memory.now) (R.returns returns.now) stack pointer }
{
    if !may_lead(stack, pointer) {
        return None;
    }
    let frame_pointer = memory.u64_at(pointer)?;
    if frame_pointer != 0 && frame_pointer <= pointer {
        return None;
    }
    let word = memory.u64_at(pointer + SIZE_OF_WORD)?;
    let address = returns.return_of(word)?;
    Some(FrameRecord {
        stack_pointer: pointer + SIZE_OF_RECORD,
        frame_pointer,
        address,
    })
}
