//! An image of each machine that has every directory, or every kind of record.

use crate::{image, put, resources, with_functions};
use std::alloc::{AllocError, Global};

/// The headers of a library with one section, at 0x200 for the addresses from 0x1000 on, and every directory.
fn headers_of_all(alloc: Global) -> Result<Vec<u8>, AllocError> {
    image(
        alloc,
        0xA20,
        &[
            (0, b"MZ"),
            (0x3C, &[0x40]),
            (0x40, &[0x50, 0x45, 0, 0, 0x64, 0x86, 1, 0]),
            (0x54, &[0xF0, 0, 0x22, 0x20, 0x0B, 2]),
            (0x68, &[0x34, 0x10]),
            (0x70, &[0, 0, 0, 0x80, 1]),
            (0x78, &[0, 0x10, 0, 0, 0, 2]),
            (0xC4, &[0x10]),
            (0xC8, &[0, 0x11, 0, 0, 0x28]),
            (0xD0, &[0, 0x12, 0, 0, 0x3C]),
            (0xD8, &[0, 0x13, 0, 0, 0xEB]),
            (0xE0, &[0, 0x10, 0, 0, 0x18]),
            (0xE8, &[0, 0x0A, 0, 0, 0x20]),
            (0xF0, &[0, 0x14, 0, 0, 0x10]),
            (0xF8, &[0x40, 0x14, 0, 0, 0x54]),
            (0x148, b".all"),
            (0x150, &[0, 8, 0, 0, 0, 0x10, 0, 0, 0, 8, 0, 0, 0, 2]),
        ],
    )
}

/// Three debug entries at 0x640 with their records after them, and two certificates at 0xA00.
fn put_debug_data_and_certificates(bytes: &mut [u8]) {
    put(
        bytes,
        &[
            (0x644, &[0x44, 0x33, 0x22, 0x11, 0, 0, 0, 0, 16]),
            (0x668, &[2, 0, 0, 0, 30, 0, 0, 0, 0, 0, 0, 0, 0xA0, 6]),
            (0x684, &[13, 0, 0, 0, 16, 0, 0, 0, 0, 0, 0, 0, 0xC0, 6]),
            (
                0x6A0,
                b"RSDS\x10\x11\x12\x13\x14\x15\x16\x17\x18\x19\x1A\x1B\x1C\x1D\x1E\x1F\x09\0\0\0a.pdb\0",
            ),
            (0x6C0, b"GCTL\0\x10\0\0\x03\0\0\0.mn\0"),
            (0xA00, &[9, 0, 0, 0, 0, 2, 2, 0, 0xAA]),
            (0xA10, &[10, 0, 0, 0, 0, 1, 1, 0, 0xBB, 0xCC]),
        ],
    );
}

/// Two functions, exports at 0x300 with two names, imports at 0x400 from two libraries, resources at 0x500, relocations at
/// 0x600, three debug entries at 0x640 with their records after them, and two certificates at 0xA00.
pub fn with_every_directory(alloc: Global) -> Result<Vec<u8>, AllocError> {
    let mut bytes = headers_of_all(alloc)?;
    let functions = with_functions(alloc)?;
    put(
        &mut bytes,
        &[(0x200, functions.get(0x200..0x228).unwrap_or(&[]))],
    );
    put(
        &mut bytes,
        &[
            (
                0x30C,
                &[0x30, 0x11, 0, 0, 1, 0, 0, 0, 2, 0, 0, 0, 2, 0, 0, 0],
            ),
            (0x31C, &[0x40, 0x11, 0, 0, 0x50, 0x11, 0, 0, 0x60, 0x11]),
            (0x330, b"all.dll\0"),
            (0x340, &[0x20, 0x10, 0, 0, 0, 0x30]),
            (0x350, &[0x70, 0x11, 0, 0, 0x74, 0x11]),
            (0x360, &[1, 0, 0, 0]),
            (0x370, b"f\0\0\0g\0"),
            (
                0x400,
                &[
                    0x50, 0x12, 0, 0, 0, 0, 0, 0, 0, 0, 0, 0, 0x40, 0x12, 0, 0, 0x70, 0x12,
                ],
            ),
            (0x420, &[0x48, 0x12, 0, 0, 0x80, 0x12]),
            (0x440, b"b.dll\0\0\0a.dll\0"),
            (0x450, &[5, 0, 0, 0, 0, 0, 0, 0x80, 0x90, 0x12]),
            (0x480, &[0x98, 0x12]),
            (0x490, b"\x07\0h\0\0\0\0\0\x09\0ij\0"),
            (0x500, &resources(alloc)?),
            (0x550, &[0x70, 0x13]),
            (0x560, &[0xE8, 0x13]),
            (0x600, &[0, 0x10, 0, 0, 0x10, 0, 0, 0, 8, 0xA0, 0x10, 0xA0]),
        ],
    );
    put_debug_data_and_certificates(&mut bytes);
    Ok(bytes)
}

/// The part of the library with every directory after its headers, over zeros where the headers are.
fn after_headers(alloc: Global) -> Result<Vec<u8>, AllocError> {
    let mut bytes = with_every_directory(alloc)?;
    for byte in bytes.iter_mut().take(0x200) {
        *byte = 0;
    }
    Ok(bytes)
}

/// A library of PE32 with every directory but the exceptions. Its debug entries have records of PDB 2.0, counts of VC
/// features, extended characteristics, a hash of Repro and parts of POGO.
pub fn with_every_directory_of_x86(alloc: Global) -> Result<Vec<u8>, AllocError> {
    let mut bytes = after_headers(alloc)?;
    put(
        &mut bytes,
        &[
            (0, b"MZ"),
            (0x3C, &[0x40]),
            (0x40, &[0x50, 0x45, 0, 0, 0x4C, 1, 1, 0]),
            (0x54, &[0xE0, 0, 2, 0x21, 0x0B, 1, 14]),
            (0x68, &[0x34, 0x10]),
            (0x74, &[0, 0, 0x40, 0, 0, 0x10, 0, 0, 0, 2]),
            (0xB4, &[0x10]),
            (0xB8, &[0, 0x11, 0, 0, 0x28]),
            (0xC0, &[0, 0x12, 0, 0, 0x3C]),
            (0xC8, &[0, 0x13, 0, 0, 0xEB]),
            (0xD8, &[0, 0x0A, 0, 0, 0x20]),
            (0xE0, &[0, 0x14, 0, 0, 0x10]),
            (0xE8, &[0, 0x15, 0, 0, 0x8C]),
            (0x138, b".all"),
            (0x140, &[0, 8, 0, 0, 0, 0x10, 0, 0, 0, 8, 0, 0, 0, 2]),
            (0x450, &[5, 0, 0, 0x80, 0x90, 0x12, 0, 0, 0, 0]),
        ],
    );
    put(
        &mut bytes,
        &[
            (0x70C, &[2, 0, 0, 0, 28, 0, 0, 0, 0, 0, 0, 0, 0x90, 7]),
            (0x728, &[12, 0, 0, 0, 20, 0, 0, 0, 0, 0, 0, 0, 0xB0, 7]),
            (0x744, &[20, 0, 0, 0, 4, 0, 0, 0, 0, 0, 0, 0, 0xC4, 7]),
            (0x760, &[16, 0, 0, 0, 7, 0, 0, 0, 0, 0, 0, 0, 0xC8, 7]),
            (0x77C, &[13, 0, 0, 0, 16, 0, 0, 0, 0, 0, 0, 0, 0xD0, 7]),
            (0x790, b"NB10\0\0\0\0\x78\x56\x34\x12\x02\0\0\0a.p\0"),
            (0x7B0, &[1, 0, 0, 0, 2, 0, 0, 0, 3, 0, 0, 0, 4, 0, 0, 0, 5]),
            (0x7C4, &[0x41, 0, 0, 0, 3, 0, 0, 0, 0xAA, 0xBB, 0xCC]),
            (0x7D0, b"LTCG\0\x10\0\0\x03\0\0\0.mn\0"),
        ],
    );
    Ok(bytes)
}

/// The library with every directory as one of ARM64: a function whose unwind data are packed, and functions with a record
/// that has a scope and a handler, one with an extension word, and one whose epilog is in its header.
pub fn with_every_directory_of_arm64(alloc: Global) -> Result<Vec<u8>, AllocError> {
    let mut bytes = with_every_directory(alloc)?;
    put(
        &mut bytes,
        &[
            (0x44, &[0x64, 0xAA]),
            (0xE4, &[0x20]),
            (0x200, &[0, 0x20, 0, 0, 0x21, 0, 0x62, 1]),
            (0x208, &[0, 0x21, 0, 0, 0x20, 0x10, 0, 0]),
            (0x210, &[0, 0x22, 0, 0, 0x40, 0x10, 0, 0]),
            (0x218, &[0, 0x23, 0, 0, 0x60, 0x10, 0, 0]),
            (0x220, &[4, 0, 0x50, 8, 3, 0, 0x38, 0]),
            (0x228, &[0x41, 0x81, 0xE4, 0xE3, 0, 0x20, 0, 0, 0xAA]),
            (0x240, &[4, 0, 0, 0, 1, 0, 1, 0, 3, 0, 0x38, 0]),
            (0x24C, &[0xE4, 0xE3, 0xE3, 0xE3]),
            (0x260, &[4, 0, 0x60, 0x10]),
            (0x264, &[0xD6, 0xC3, 0xE7, 0x0A, 0xC5, 0xE4, 0xE3, 0xE3]),
        ],
    );
    Ok(bytes)
}

/// The library with every directory and more functions: links to functions, one of them to a link, and records with
/// codes of every kind of both versions, with a scope table, and with the function that its own continues.
pub fn with_every_directory_and_records(alloc: Global) -> Result<Vec<u8>, AllocError> {
    let mut bytes = with_every_directory(alloc)?;
    for (number, unwind) in [
        0x1060u32, 0x1001, 0x100D, 0x1090, 0x10B0, 0x10C0, 0x103D, 0x10D0,
    ]
    .into_iter()
    .enumerate()
    {
        let begin = 0x1000u32.wrapping_add((number as u32).wrapping_mul(0x10));
        let entry = 0x200usize.wrapping_add(number.wrapping_mul(12));
        put(
            &mut bytes,
            &[
                (entry, &begin.to_le_bytes()),
                (
                    entry.wrapping_add(4),
                    &begin.wrapping_add(0x10).to_le_bytes(),
                ),
                (entry.wrapping_add(8), &unwind.to_le_bytes()),
            ],
        );
    }
    put(
        &mut bytes,
        &[
            (0xE4, &[0x60]),
            (0x260, &[1, 0x20, 18, 0x25, 0x20, 3, 0x1C, 1, 0, 0x10]),
            (0x26A, &[0x18, 0x11, 0, 0, 0x10, 0, 0x14, 0x34, 2, 0]),
            (0x274, &[0x10, 0x35, 0, 0, 1, 0, 0x0C, 0x68, 3, 0]),
            (0x27E, &[8, 0x69, 0, 0, 2, 0, 4, 0x1A, 2, 0x50]),
            (0x290, &[9, 4, 1, 0, 4, 0x42, 0, 0, 0, 0x10, 0, 0, 1, 0, 0]),
            (0x2A0, &[0x30, 0x10, 0, 0, 0x38, 0x10, 0, 0, 1, 0, 0, 0]),
            (0x2AC, &[0x3C, 0x10, 0, 0, 0x21, 0, 0, 0, 0, 0x10, 0, 0]),
            (0x2B8, &[0x10, 0x10, 0, 0, 0x60, 0x10, 0, 0, 2, 4, 3, 0]),
            (0x2C4, &[4, 0x16, 8, 6, 4, 0x42, 0, 0]),
            (0x2D0, &[1, 0, 0, 0]),
        ],
    );
    Ok(bytes)
}
