//! Version information written: the bytes of a block for its key, its value and the blocks in it. See Microsoft's
//! [VS_VERSIONINFO](https://learn.microsoft.com/windows/win32/menurc/vs-versioninfo). A caller writes the innermost blocks
//! first, one after the other, and hands their bytes to the block that has them; or `write_version` writes all blocks, of records.
#![tactic(auto)]

mod block;
mod by_records;
mod error;
pub mod laws;
mod measure;
mod put;
mod record;
mod version;

pub use block::{NewBlock, block_len, write_block};
pub use by_records::{version_len, write_version};
pub use error::VersionError;
pub use record::{LanguageRecord, StringRecord, TableRecord, VersionRecords};
