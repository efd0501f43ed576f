//! The directories of an image that `PE::parse` of pe_image leaves as bytes, or does not read: base relocations, TLS, the load
//! configuration, delay imports, the CLR header.
//!
//! A caller makes an `ImageBytes` of the headers, and reads directories one by one, or those that it chooses by
//! `Directories::parse`. What an entry leads to is read by a walk, or a call of its own. No call allocates but those that take
//! an allocator: they list delay imports, and read the names of bound imports together.
//!
//! Layouts are those of Microsoft's [PE format](https://learn.microsoft.com/windows/win32/debug/pe-format).
//!
//! Every call is proved to return what its definition in `specs/` says, for every byte string.
#![tactic(auto)]

mod base_relocation;
mod bound_import;
mod bound_names;
mod clr;
mod delay_import;
mod delay_import_list;
mod directories;
mod error;
mod guard_table;
mod image_bytes;
mod indexed_image;
pub mod laws;
mod load_config;
mod loaded_image;
mod overlay;
mod relocating;
mod rich_header;
mod section_name;
mod section_runs;
mod tls;
mod va_table;

pub use base_relocation::{
    BaseRelocation, BaseRelocations, IMAGE_REL_BASED_ABSOLUTE, IMAGE_REL_BASED_DIR64,
    IMAGE_REL_BASED_HIGH, IMAGE_REL_BASED_HIGHADJ, IMAGE_REL_BASED_HIGHLOW, IMAGE_REL_BASED_LOW,
    RelocationBlock, RelocationBlocks,
};
pub use bound_import::{
    BoundForwarder, BoundForwarders, BoundImport, BoundImportDirectory, BoundImports,
};
pub use bound_names::BoundNames;
pub use clr::{ClrHeader, ClrMetadata, ClrStream, ClrStreams, ReadyToRunHeader};
pub use delay_import::{DelayImport, DelayImports, DelayedFunction};
pub use delay_import_list::DelayedDll;
pub use directories::{ChosenDirectories, Directories};
pub use error::DirectoryError;
pub use guard_table::{
    GuardEntry, GuardTable, IMAGE_GUARD_FLAG_EXPORT_SUPPRESSED, IMAGE_GUARD_FLAG_FID_SUPPRESSED,
};
pub use image_bytes::ImageBytes;
pub use indexed_image::IndexedImage;
pub use load_config::{
    CodeIntegrity, GuardFunctions, GuardTables, LoadConfig, LoadMetadata, ProcessSettings,
    ReturnFlowGuard,
};
pub use loaded_image::lay_out;
pub use overlay::overlay_range;
pub use relocating::relocate;
pub use rich_header::{RichEntry, RichHeader};
pub use section_name::{long_section_name, long_section_names, string_offset};
pub use section_runs::{Run, Runs, raw_start, reach, run_in};
pub use tls::TlsDirectory;
pub use va_table::VaTable;
