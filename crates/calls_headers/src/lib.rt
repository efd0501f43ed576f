//! What the library for C returns of headers: the header fields, the section map, the image as a loader lays it out, COFF objects
//! and symbols, TE images, the Rich header, debug data. https://learn.microsoft.com/windows/win32/debug/pe-format
#![tactic(auto)]

pub mod coff;
pub mod debug;
pub mod headers;
pub mod map_ranges;
pub mod maps;
pub mod rich_header;
pub mod section_names;
pub mod te;
