//! One step of a stack walk on x64 and on ARM64: the registers of a function's caller, from its own registers, its unwind
//! records and the memory of its stack.
//!
//! On x64 a prolog pushes registers, allocates stack, may set a frame register and saves further registers. Unwind codes say
//! what it did, the last step first, so that undoing them in turn leads back to the function's entry, where the stack
//! pointer points at the return address. [Microsoft's page](https://learn.microsoft.com/cpp/build/exception-handling-x64) has the
//! codes and the procedure.
//!
//! A walk is `UnwindPlan::of` of pe_plan and [`step`] in turn, or [`leaf`] where no function covers the address. What a
//! caller of `step` looks up, and how a walk ends, is said there. In an epilog the codes do not hold any more:
//! [`step_with_code`] knows one by its bytes.
//!
//! On ARM64 a walk is `ExceptionData::get_unwind_info_arm64` of pe_unwind and [`step_arm64`] in turn, [`step_arm64_packed`]
//! where that returns `None` of an entry, or [`leaf_arm64`]. How ARM64 differs is said in `arm64`.
#![tactic(auto)]

mod arm64;
mod call;
mod chain;
mod epilog;
mod error;
mod frame;
mod frequent;
mod function_step;
mod jump;
pub mod laws;
mod memory;
mod memory_list;
mod memory_pieces;
mod modules;
mod plain;
mod plan;
mod position;
mod process;
mod record;
mod registers;
mod scan;
mod searched_memory;
mod undo;
mod walk;

pub use arm64::{
    Arm64Registers, Arm64StackFrame, Arm64StackFrames, caller_in_module_arm64,
    caller_outside_arm64, leaf_arm64, step_arm64, step_arm64_packed, step_out_arm64,
};
pub use error::FrameError;
pub use frame::{leaf, step, step_out, step_with_code};
pub use function_step::step_in_function_in_place;
pub use jump::{ImageFunctions, step_in_image};
pub use memory::{Memory, Stack};
pub use memory_list::{MemoryList, MemoryPiece};
pub use memory_pieces::StackPieces;
pub use modules::{Module, ModuleOrder, Modules};
pub use plain::step_by_plain_record;
pub use plan::{FunctionPlan, Stopped};
pub use position::{WalkFrame, WalkPosition};
pub use process::{CallSites, LoadedModules};
pub use registers::Registers;
pub use searched_memory::SearchedMemory;
pub use walk::{StackFrame, StackFrames, WalkEnd, Way, caller_in_module, caller_outside};
