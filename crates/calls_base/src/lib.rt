//! What the rooms of the library for C share: results as numbers, ranges of the caller's bytes, views of an image with its headers
//! and sections, texts, walks and lists. https://learn.microsoft.com/windows/win32/debug/pe-format
//!
//! The library for C, `pe_c`, has the calls of the C ABI. What they do stands in the crates `calls_..`, one for each part of the
//! format, so that a change of one is proved without the others.
#![tactic(auto)]

pub mod directories;
pub mod ended_texts;
pub mod entry_lists;
pub mod image;
pub mod kept_sections;
pub mod lists;
pub mod loaded;
pub mod named_view;
pub mod near_map;
pub mod numbers;
pub mod ranges;
pub mod results;
pub mod section_index;
pub mod text_runs;
pub mod texts;
pub mod view;
pub mod walks;
