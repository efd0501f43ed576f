//! Why the library for C refuses headers, a directory or a step of a walk: where it is, what is needed there, and what stands there.
//! https://learn.microsoft.com/windows/win32/debug/pe-format
#![tactic(auto)]

pub mod debug;
pub mod directories;
pub mod headers;
pub mod steps;
