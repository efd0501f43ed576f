//! The version of a file.

use pe_image::{PE, ParseMode, ParseOptions, Result};
use std::alloc::Global;

/// The file's version as text, as `3.11.3150.0`. `None` for an image without fixed file information, or if
/// its resources are damaged.
pub fn file_version(alloc: Global, bytes: &[u8]) -> Result<Option<String>> {
    let opts = ParseOptions::default().with_parse_mode(ParseMode::Permissive);
    let image = PE::parse_with_opts(alloc, bytes, &opts)?;
    version_of(alloc, &image)
}

/// The same of an image that is parsed.
fn version_of(alloc: Global, image: &PE) -> Result<Option<String>> {
    let Some(resources) = &image.resource_data else {
        return Ok(None);
    };
    let Some(version) = &resources.version_info else {
        return Ok(None);
    };
    let Some(fixed) = version.fixed_info else {
        return Ok(None);
    };
    Ok(Some(fixed.file_version().to_string(alloc)?))
}
