//! All resources of a type.

use pe_core::{ByteRange, Header, MappedBytes, ParseMode, ParseOptions, Result};
use pe_resource::ResourceData;
use std::alloc::Global;

/// The file range of the content of each resource of a type, such as `RT_ICON` or `RT_STRING`, in every language. Entries
/// without a leaf and contents that are not in the file are left out, and so is what a hostile tree has after 100,000 items.
pub fn contents_of_type(alloc: Global, bytes: &[u8], id: u16) -> Result<Vec<ByteRange>> {
    let opts = ParseOptions::default().with_parse_mode(ParseMode::Permissive);
    let header = Header::parse_with_opts(bytes, &opts)?;
    let mut ranges = Vec::new(alloc);
    let Some(optional_header) = &header.optional_header else {
        return Ok(ranges);
    };
    let Some(directory) = optional_header.data_directories.get_resource_table() else {
        return Ok(ranges);
    };
    let sections = header.sections(alloc, bytes)?;
    let alignment = optional_header.windows_fields.file_alignment;
    let image = MappedBytes::new(bytes, &sections, alignment, &opts);
    for item in ResourceData::leaves(&image, directory)?.take(100_000) {
        let Ok(leaf) = item else {
            continue;
        };
        if leaf.resource_type.id() != Some(id) {
            continue;
        }
        if let Ok(range) = leaf.content_range(&image) {
            ranges.push(range)?;
        }
    }
    Ok(ranges)
}
