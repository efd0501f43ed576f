//! The key by which a symbol server files the symbols of an image.

use pe_image::{PE, ParseMode, ParseOptions, Result};
use std::alloc::Global;

/// GUID and age. `None` for an image without a PDB 7.0 record, or if its debug data are damaged. Another directory that is
/// damaged does not matter.
pub fn symbol_key(alloc: Global, bytes: &[u8]) -> Result<Option<([u8; 16], u32)>> {
    let opts = ParseOptions::default().with_parse_mode(ParseMode::Permissive);
    let image = PE::parse_with_opts(alloc, bytes, &opts)?;
    let Some(debug) = image.debug_data else {
        return Ok(None);
    };
    Ok(
        debug
            .codeview_pdb70_debug_info
            .map(|record| (record.signature, record.age)),
    )
}
