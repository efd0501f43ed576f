//! What the library for C returns of program databases: streams, modules, symbols, lines, inlined functions.
//! https://llvm.org/docs/PDB
#![tactic(auto)]

pub mod index;
pub mod inlined;
pub mod lines;
pub mod modules;
pub mod pdb;
pub mod symbols;
