//! Why a step is refused.

use pe_unwind::{Arm64UnwindCode, UnwindOperation};

/// Why the caller's registers can't be found.
#[derive(Debug, Drop, thiserror::Error)]
pub enum FrameError {
    /// An unwind code of a record is truncated or invalid.
    #[error("{0}")]
    Codes(pe_core::Error),
    /// The address of eight bytes that the memory does not have.
    #[error("no memory at address {0:#x}")]
    Memory(u64),
    /// An address from which an unwind code, or `add` in an epilog, counts: its sum passes 2^64, or the frame register lies
    /// below its offset.
    #[error("address {0:#x} and the offset of an unwind code do not fit 64 bits")]
    Address(u64),
    /// An operation that no step undoes: one on a register of no such number, `SetFPRegister` in a record without a frame
    /// register, or `SaveXMM`, which saves half of a register and is in records of version 1 alone.
    #[error("unwind operation cannot be undone: {0:?}")]
    Operation(UnwindOperation),
    /// An ARM64 unwind code that no step undoes.
    #[error("unwind code cannot be undone: {0:?}")]
    Arm64Code(Arm64UnwindCode),
    /// Packed unwind data of ARM64 that stand for no canonical prolog.
    #[error("packed unwind data {0:#x} have no canonical prolog")]
    Packed(u32),
    /// The stack pointer of the caller, which is not above that of the function; on ARM64 it is below that.
    #[error("stack pointer {0:#x} of the caller is not above that of the function")]
    NotRising(u64),
}
