//! The library for C and other languages: functions of the C ABI that read headers, directories and exception data of
//! PE images (https://learn.microsoft.com/windows/win32/debug/pe-format), and that attach and detach their certificates.
//! `bindings/pe.h` declares them.
//!
//! A caller passes the bytes of the file, plain records, and an `out` to write to. A call returns 0 (`DONE`) with the
//! value in `out`, or a number that says why there is none, with `out` unchanged. Comments name errors as `pe.h` does,
//! without `PE_C_`. Records hold numbers and ranges of the caller's bytes. No call allocates, keeps state or calls
//! back.
//!
//! Each call is a few lines over a room, one of the crates `calls_..`, whose `specs/` has its definition. It is proved to return
//! what that says, for every byte string and for every value of every field that is passed: no call has a `requires`.
#![tactic(auto)]

// What all calls share.
mod base;

// What is read of an image: headers first, then each directory.
mod debug;
mod directories;
mod headers;
mod names;
mod resources;
mod signatures;

// Functions of an image, and the stacks of programs.
mod arm64;
mod dump;
mod pdb;
mod stack;
mod unwinding;

// Why a call refuses.
mod failures;

// What is written.
mod write;

// What holds of several calls.
pub mod laws;
