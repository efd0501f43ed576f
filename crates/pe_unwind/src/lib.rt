//! Exception data of Windows executables: which function covers an RVA, and how its frame is unwound.
//!
//! The exception directory (`.pdata`) is a table of functions. An x64 entry leads to an unwind record whose codes say
//! what the prolog did; an ARM64 entry holds packed unwind data or leads to such a record (`.xdata`). A caller parses
//! the table by `ExceptionData`, looks an RVA up in it by binary search, follows the links between entries to their
//! end, and reads the codes of the record. Layouts:
//! [x64 exception handling](https://learn.microsoft.com/cpp/build/exception-handling-x64) and
//! [ARM64 exception handling](https://learn.microsoft.com/cpp/build/arm64-exception-handling).
//!
//! Every call is proved to return what its definition in `specs/` says, for every byte string.
#![tactic(auto)]

mod arm64;
mod exception;
mod function_table;
pub mod laws;
mod links;
mod lookup;
mod register;
mod scope_table;
mod unwind_code;
mod unwind_info;

pub use arm64::codes::{
    Arm64CustomStackCase, Arm64UnwindCode, Arm64UnwindCodeData, Arm64UnwindCodeIterator,
};
pub use arm64::function::{
    ARM64_PDATA_CR_CHAINED, ARM64_PDATA_CR_CHAINED_WITH_PAC, ARM64_PDATA_CR_UNCHAINED,
    ARM64_PDATA_CR_UNCHAINED_SAVED_LR, ARM64_PDATA_PACKED_UNWIND_FRAGMENT,
    ARM64_PDATA_PACKED_UNWIND_FUNCTION, ARM64_PDATA_REF_TO_FULL_XDATA, Arm64RuntimeFunction,
    Arm64RuntimeFunctionIterator,
};
pub use arm64::info::{Arm64ExceptionHandler, Arm64UnwindInfo};
pub use arm64::lookup::search_arm64;
pub use arm64::words::{
    Arm64EpilogScope, Arm64EpilogScopeIterator, Arm64UnwindExtension, Arm64UnwindHeader,
};
pub use exception::ExceptionData;
pub use function_table::{RuntimeFunction, RuntimeFunctionIterator, search, search_start};
pub use links::linked_record_offset;
pub use register::Register;
pub use scope_table::{ScopeTableEntry, ScopeTableIterator};
pub use unwind_code::{StackFrameOffset, UnwindCode, UnwindCodeIterator, UnwindOperation};
pub use unwind_info::{UnwindHandler, UnwindInfo, scope_table_size};
