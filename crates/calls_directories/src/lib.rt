//! What the library for C returns of the directories of an image: exports, imports, resources, relocations, TLS, the load
//! configuration, delay and bound imports, the CLR header.
//! https://learn.microsoft.com/windows/win32/debug/pe-format#optional-header-data-directories-image-only
#![tactic(auto)]

pub mod directories;
pub mod names;
pub mod resources;
