//! What an image imports, also where another part of it is damaged.

use pe_image::{PE, ParseMode, ParseOptions, Result};
use std::alloc::Global;

/// The library and the name of each import, in their order; an import by its ordinal has no name. Another directory that
/// is damaged is left empty, and the imports are given all the same.
pub fn import_names<'a>(alloc: Global, bytes: &'a [u8]) -> Result<Vec<(&'a str, Option<&'a str>)>> {
    let opts = ParseOptions::default().with_parse_mode(ParseMode::Permissive);
    let image = PE::parse_with_opts(alloc, bytes, &opts)?;
    let mut names = Vec::new(alloc);
    for import in image.imports.iter() {
        names.push((import.dll, import.name))?;
    }
    Ok(names)
}
