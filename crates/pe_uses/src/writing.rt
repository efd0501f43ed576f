//! An image that is changed and written.

use pe_image::{PE, Result};
use std::alloc::Global;

/// The image with its time stamp set to zero, so that two builds of the same sources are alike: its file, over which its
/// headers, sections and certificates are written. COFF symbols and data after the sections stay.
pub fn without_time_stamp(alloc: Global, bytes: &[u8]) -> Result<Vec<u8>> {
    let mut image = PE::parse(alloc, bytes)?;
    image.header.coff_header.time_date_stamp = 0;
    let mut written = Vec::with_capacity(alloc, bytes.len())?;
    written.extend_from_slice(bytes)?;
    image.write_whole(&mut written)?;
    Ok(written)
}
