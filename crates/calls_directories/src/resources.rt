//! Resources: the leaves of their tree, version information as fields and as a tree of blocks, and the manifest.
//! https://learn.microsoft.com/windows/win32/debug/pe-format#the-rsrc-section

pub mod leaves;
pub mod version;
pub mod version_blocks;
