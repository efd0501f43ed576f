//! Images made by hand, for the tests of other crates.
#![tactic(auto)]

mod every_directory;
mod objects;

pub use every_directory::{
    with_every_directory, with_every_directory_and_records, with_every_directory_of_arm64,
    with_every_directory_of_x86,
};
pub use objects::{object, te, te_with_debug};
use std::alloc::{AllocError, Global};

/// Puts each part at its offset. What does not fit is left out.
pub fn put(bytes: &mut [u8], parts: &[(usize, &[u8])]) {
    for (offset, part) in parts {
        let start = bytes.len().min(*offset);
        for (byte, slot) in part.iter().zip(bytes[start..].iter_mut()) {
            *slot = *byte;
        }
    }
}

/// Zeros, with the parts at their offsets.
pub fn image(alloc: Global, len: usize, parts: &[(usize, &[u8])]) -> Result<Vec<u8>, AllocError> {
    let mut bytes = vec![in alloc; 0; len]?;
    put(&mut bytes, parts);
    Ok(bytes)
}

/// An image of PE32+ with headers alone.
pub fn headers_alone(alloc: Global) -> Result<Vec<u8>, AllocError> {
    image(
        alloc,
        0x200,
        &[
            (0, b"MZ"),
            (0x3C, &[0x78]),
            (0x78, &[0x50, 0x45, 0, 0, 0x64, 0x86]),
            (0x8C, &[0xF0, 0, 0x22, 0, 0x0B, 2]),
            (0xA0, &[0x20, 0x10]),
            (0xA8, &[0, 0, 0, 0x40, 1]),
            (0xB0, &[0, 0x10]),
            (0xB4, &[0, 2]),
            (0xFC, &[0x10]),
        ],
    )
}

/// An image of PE32 whose DOS header points into itself, without an optional header.
pub fn pointer_below_64(alloc: Global) -> Result<Vec<u8>, AllocError> {
    image(
        alloc,
        256,
        &[
            (0, b"MZ"),
            (0x3C, &[0x30]),
            (0x30, b"PE"),
            (0x34, &[0x4C, 1]),
        ],
    )
}

/// An image with a section at 0x200, for the addresses from 0x1000 on, and in it a debug entry of Repro.
pub fn with_debug(alloc: Global) -> Result<Vec<u8>, AllocError> {
    image(
        alloc,
        0x410,
        &[
            (0, b"MZ"),
            (0x3C, &[0x40]),
            (0x40, &[0x50, 0x45, 0, 0, 0x64, 0x86, 1, 0]),
            (0x54, &[0xF0, 0, 0x22, 0, 0x0B, 2]),
            (0x68, &[0, 0x10]),
            (0x70, &[0, 0, 0, 0x40, 1]),
            (0x78, &[0, 0x10]),
            (0x7C, &[0, 2]),
            (0xC4, &[0x10]),
            (0xF8, &[0x40, 0x10, 0, 0, 0x1C, 0, 0, 0]),
            (0x148, b".rdata"),
            (0x150, &[0, 1, 0, 0, 0, 0x10, 0, 0, 0, 2, 0, 0, 0, 2]),
            (0x16C, &[0x40, 0, 0, 0x40]),
            (0x244, &[0x44, 0x33, 0x22, 0x11]),
            (0x24C, &[0x10]),
        ],
    )
}

/// The same with a certificate after its section.
pub fn with_certificate(alloc: Global) -> Result<Vec<u8>, AllocError> {
    let mut bytes = with_debug(alloc)?;
    let certificate = [9, 0, 0, 0, 0, 2, 2, 0, 0xAA];
    put(
        &mut bytes,
        &[(0xE8, &[0, 4, 0, 0, 0x10, 0, 0, 0]), (0x400, &certificate)],
    );
    Ok(bytes)
}

/// The same with a table of two functions. The second has a link to the first, whose record has two codes.
pub fn with_functions(alloc: Global) -> Result<Vec<u8>, AllocError> {
    let mut bytes = with_certificate(alloc)?;
    let functions = [
        0, 0x10, 0, 0, 0x10, 0x10, 0, 0, 0x20, 0x10, 0, 0, 0x20, 0x10, 0, 0, 0x40, 0x10, 0, 0, 1,
        0x10, 0, 0,
    ];
    put(
        &mut bytes,
        &[
            (0xE0, &[0, 0x10, 0, 0, 0x18, 0, 0, 0]),
            (0x200, &functions),
            (0x220, &[1, 4, 2, 0, 4, 0x42, 1, 0x50]),
        ],
    );
    Ok(bytes)
}

/// The same with two exported names, `f` of the first address and one of a sixth address, which there is not.
pub fn with_exports(alloc: Global) -> Result<Vec<u8>, AllocError> {
    let mut bytes = with_functions(alloc)?;
    let directory = [
        0x90, 0x10, 0, 0, 1, 0, 0, 0, 1, 0, 0, 0, 2, 0, 0, 0, 0xA0, 0x10, 0, 0, 0xB0, 0x10, 0, 0,
        0xC0, 0x10, 0, 0,
    ];
    put(
        &mut bytes,
        &[
            (0xC8, &[0x60, 0x10, 0, 0, 0x28, 0, 0, 0]),
            (0x26C, &directory),
            (0x290, b"a.dll\0"),
            (0x2A0, &[0x20, 0x10]),
            (0x2B0, &[0xD0, 0x10, 0, 0, 0xD0, 0x10]),
            (0x2C0, &[0, 0, 5, 0]),
            (0x2D0, b"f\0"),
        ],
    );
    Ok(bytes)
}

/// The image with functions and with two imports from one library, one by the ordinal 5 and one by the name `f` with the
/// hint 7.
pub fn with_imports(alloc: Global) -> Result<Vec<u8>, AllocError> {
    let mut bytes = with_functions(alloc)?;
    put(
        &mut bytes,
        &[
            (0xD0, &[0x60, 0x10, 0, 0, 0x28, 0, 0, 0]),
            (0x260, &[0xA0, 0x10]),
            (0x26C, &[0x90, 0x10, 0, 0, 0xC0, 0x10]),
            (0x290, b"a.dll\0"),
            (0x2A0, &[5, 0, 0, 0, 0, 0, 0, 0x80, 0xD0, 0x10]),
            (0x2D0, b"\x07\0f\0"),
        ],
    );
    Ok(bytes)
}

/// The data of a resource directory, for an image whose RVAs are file offsets: version information of the version
/// 3.11.3150.0, whose comments are `B`, and the manifest `<a>`.
pub fn resources(alloc: Global) -> Result<Vec<u8>, AllocError> {
    let entries = [
        0x10, 0, 0, 0, 0x20, 0, 0, 0x80, 0x18, 0, 0, 0, 0x38, 0, 0, 0x80,
    ];
    let key = b"\x5C\0\x34\0\0\0V\0S\0_\0V\0E\0R\0S\0I\0O\0N\0_\0I\0N\0F\0O\0";
    let fixed = [
        0xBD, 4, 0xEF, 0xFE, 0, 0, 1, 0, 0x0B, 0, 3, 0, 0, 0, 0x4E, 0x0C,
    ];
    image(
        alloc,
        0xEB,
        &[
            (0x0E, &[2, 0]),
            (0x10, &entries),
            (0x2E, &[1, 0]),
            (0x30, &[9, 4, 0, 0, 0x50, 0, 0, 0]),
            (0x46, &[1, 0]),
            (0x48, &[9, 4, 0, 0, 0x60, 0, 0, 0]),
            (0x50, &[0x70, 0, 0, 0, 0x78, 0, 0, 0]),
            (0x60, &[0xE8, 0, 0, 0, 3, 0, 0, 0]),
            (0x70, key),
            (0x98, &fixed),
            (0xCC, b"\x1C\0\x02\0\x01\0C\0o\0m\0m\0e\0n\0t\0s\0\0\0B\0"),
            (0xE8, b"<a>"),
        ],
    )
}

/// The image with functions and with these resources.
pub fn with_resources(alloc: Global) -> Result<Vec<u8>, AllocError> {
    let mut bytes = with_functions(alloc)?;
    let data = resources(alloc)?;
    put(
        &mut bytes,
        &[
            (0xD8, &[0x60, 0x10, 0, 0, 0xEB, 0, 0, 0]),
            (0x260, &data),
            (0x2B0, &[0xD0, 0x10]),
            (0x2C0, &[0x48, 0x11]),
        ],
    );
    Ok(bytes)
}
