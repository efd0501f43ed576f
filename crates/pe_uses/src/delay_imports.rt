//! DLLs that are loaded when one of their functions is called first.

use pe_directories::{DelayImports, DirectoryError, ImageBytes, IndexedImage};
use std::alloc::Global;

/// The DLLs that an image loads when one of their functions is called first, each with how many functions are imported of
/// it.
pub fn delayed_dlls<'a>(
    alloc: Global,
    image: &ImageBytes<'a>,
    entries: DelayImports<'_>,
) -> Result<Vec<(&'a str, usize)>, DirectoryError> {
    let indexed = IndexedImage::new(alloc, image)?;
    let mut delayed = Vec::new(alloc);
    for dll in &entries.dlls(alloc, &indexed)? {
        let functions = dll.entry.functions(alloc, &indexed)?;
        delayed.push((dll.name, functions.len()))?;
    }
    Ok(delayed)
}
