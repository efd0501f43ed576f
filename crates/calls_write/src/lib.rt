//! What the library for C writes: signed and unsigned files, sections, images, resources, version information.
//! https://learn.microsoft.com/windows/win32/debug/pe-format
#![tactic(auto)]

pub mod image;
pub mod resources;
pub mod signing;
pub mod version;
