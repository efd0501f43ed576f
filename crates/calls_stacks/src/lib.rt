//! Stack walks of the library for C, names of functions without a PDB, and minidumps, whose memory and contexts walks read.
//! https://learn.microsoft.com/windows/win32/api/minidumpapiset
#![tactic(auto)]

pub mod arm64;
pub mod dump;
pub mod stack;
