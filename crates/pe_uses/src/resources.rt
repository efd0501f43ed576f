//! The tree of resources.

use pe_image::{ResourceEntry, Result};
use std::alloc::Global;

/// Where the data entry lies at the end of the first way down from an entry, counted from the beginning of the resource
/// directory, whose bytes these are. `None` where that way ends at a directory without entries.
pub fn first_data_entry(alloc: Global, bytes: &[u8], entry: &ResourceEntry) -> Result<Option<u32>> {
    if let Some(offset) = entry.offset_to_data() {
        return Ok(Some(offset));
    }
    match entry.recursive_next_depth(alloc, bytes, |next| next.data_is_directory())? {
        Some(last) => Ok(last.offset_to_data()),
        None => Ok(None),
    }
}
