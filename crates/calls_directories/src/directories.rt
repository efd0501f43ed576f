//! Directories of an image, a file each: thread-local storage, the load configuration and its tables of code, base relocations, delay
//! and bound imports, .NET, certificates. This file has what they share: the image as pe_directories takes it, and steps of walks by
//! what stands first in what is left. A walk is the range of the bytes that are left.
//! https://learn.microsoft.com/windows/win32/debug/pe-format#optional-header-data-directories-image-only

pub mod all_delay_imports;
pub mod base_relocations;
pub mod bound_imports;
pub mod certificates;
pub mod clr;
pub mod delay_imports;
pub mod guard_tables;
pub mod load_config;
pub mod tables;
pub mod tls;
