//! All strings of version information.

use pe_resource::{Translation, VersionBlock};
use std::alloc::{AllocError, Global};

/// All strings of version information, in every language: the language and the code page of their table, the key and the
/// value. `data` is the content of a resource of the type `RT_VERSION`, as `contents_of_type` finds it. What is damaged is
/// left out.
pub fn version_strings(
    alloc: Global,
    data: &[u8],
) -> Result<Vec<(Translation, String, String)>, AllocError> {
    let mut strings = Vec::new(alloc);
    let Ok(Some(root)) = VersionBlock::parse(data) else {
        return Ok(strings);
    };
    let Ok(tables) = root.string_tables() else {
        return Ok(strings);
    };
    for item in tables {
        let Ok(table) = item else {
            continue;
        };
        let Some(translation) = table.translation() else {
            continue;
        };
        for item in table.children() {
            let Ok(string) = item else {
                continue;
            };
            let (key, value) = (string.key_string(alloc)?, string.value_string(alloc)?);
            if let (Some(key), Some(value)) = (key, value) {
                strings.push((translation, key, value))?;
            }
        }
    }
    Ok(strings)
}
