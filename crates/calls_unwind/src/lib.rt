//! What the library for C returns of exception data: function tables, unwind records and their codes, on x64 and on ARM64.
//! https://learn.microsoft.com/cpp/build/exception-handling-x64
#![tactic(auto)]

pub mod arm64;
pub mod lists;
pub mod unwinding;
