//! What an image exports, and what it imports when it is loaded: names and ordinals, with the addresses that they stand for.
//! `all_imports` walks over the imports of all libraries; `near_exports` and `near_imports` are steps of lists.
//! https://learn.microsoft.com/windows/win32/debug/pe-format#the-edata-section-image-only

pub mod all_imports;
pub mod export_addresses;
pub mod export_texts;
pub mod exports;
pub mod imports;
pub mod near_exports;
pub mod near_imports;
