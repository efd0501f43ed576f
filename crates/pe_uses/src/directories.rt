//! What runs before the entry point.

use pe_directories::{DirectoryError, ImageBytes, TlsDirectory};
use pe_image::{Header, ParseMode, ParseOptions};
use std::alloc::Global;

/// The virtual address of the first TLS callback of an image: code that runs before its entry point. `None` if it has no
/// callback.
pub fn first_tls_callback(alloc: Global, bytes: &[u8]) -> Result<Option<u64>, DirectoryError> {
    let opts = ParseOptions::default().with_parse_mode(ParseMode::Permissive);
    let header = Header::parse_with_opts(bytes, &opts)?;
    let Some(optional_header) = &header.optional_header else {
        return Ok(None);
    };
    let Some(directory) = optional_header.data_directories.get_tls_table() else {
        return Ok(None);
    };
    let sections = header.sections(alloc, bytes)?;
    let image = ImageBytes::new(bytes, optional_header, &sections, &opts);
    let tls = TlsDirectory::parse(&image, directory)?;
    match tls.callbacks(&image)?.next() {
        Some(Ok(va)) => Ok(Some(va)),
        Some(Err(error)) => Err(error),
        None => Ok(None),
    }
}
