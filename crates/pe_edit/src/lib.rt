//! Resources written: the bytes of a resource section for a list of leaves, and why a list has none.
#![tactic(auto)]

mod directories;
mod error;
pub mod laws;
mod layout;
mod leaf;
mod leaves;
mod level;
mod put;
mod record;
mod section;

pub use error::{EditError, RecordError};
pub use leaf::{Resource, ResourceKey};
pub use leaves::Leaves;
pub use record::{RecordKey, RecordRange, ResourceRecord, require_records, sum_within};
pub use section::{section_len, write_section};
