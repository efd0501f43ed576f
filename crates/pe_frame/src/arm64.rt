//! One step of a stack walk on ARM64, by unwind records and by packed unwind data.
//!
//! Each unwind code stands for one instruction of a prolog, of four bytes, and the codes of a record stand the last
//! instruction first. [Microsoft's page](https://learn.microsoft.com/cpp/build/arm64-exception-handling) has the codes. A call
//! leaves its return address in a register, the link register x30, so that undoing a prolog leads to it without a pop. An epilog
//! undoes the prolog, and has codes of its own, or the same ones.

mod call;
mod code_list;
mod entry;
mod epilog;
mod operation;
mod packed;
mod record;
mod registers;
mod step;
mod undo;
mod walk;

pub(crate) use call::is_call_arm64;
pub use registers::Arm64Registers;
pub use step::{leaf_arm64, step_arm64, step_arm64_packed, step_out_arm64};
pub use walk::{Arm64StackFrame, Arm64StackFrames, caller_in_module_arm64, caller_outside_arm64};
