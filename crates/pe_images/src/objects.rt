//! A TE image and an object.

use crate::{image, put};
use std::alloc::{AllocError, Global};

/// A TE image of 80 bytes with one section, of which 0x100 bytes of headers more than its own were dropped.
pub fn te(alloc: Global) -> Result<Vec<u8>, AllocError> {
    image(
        alloc,
        80,
        &[
            (0, &[0x56, 0x5A, 0x64, 0x86, 1, 0x0A, 0x28, 1]),
            (8, &[0, 0x11, 0, 0, 0, 0x11]),
            (52, &[0, 0x11]),
            (60, &[0x50, 1]),
        ],
    )
}

/// The same with the debug entries of a record of PDB 7.0 and of a time stamp, at 0x50 and after. The first has its
/// RVA 0x100 above the record's offset 0x90, and a file offset that leads nowhere.
pub fn te_with_debug(alloc: Global) -> Result<Vec<u8>, AllocError> {
    let mut bytes = image(alloc, 0xAE, &[(0, &te(alloc)?)])?;
    put(
        &mut bytes,
        &[
            (32, &[0x50, 1, 0, 0, 0x38, 0, 0, 0]),
            (0x5C, &[2, 0, 0, 0, 30, 0, 0, 0, 0x90, 1, 0, 0, 0, 0x20]),
            (0x70, &[0x44, 0x33, 0x22, 0x11, 0, 0, 0, 0, 16]),
            (
                0x90,
                b"RSDS\x10\x11\x12\x13\x14\x15\x16\x17\x18\x19\x1A\x1B\x1C\x1D\x1E\x1F\x09\0\0\0a.pdb\0",
            ),
        ],
    );
    Ok(bytes)
}

/// An object of 220 bytes that an assembler made: one section, seven entries of symbols, and one long name.
pub fn object(alloc: Global) -> Result<Vec<u8>, AllocError> {
    image(
        alloc,
        220,
        &[
            (
                0,
                b"\x64\x86\x01\x00\xB5\x39\x91\x62\x4E\0\0\0\x07\0\0\0\0\0\0\0",
            ),
            (20, b".text\0\0\0\0\0\0\0\0\0\0\0\x08\0\0\0\x3C\0\0\0"),
            (44, b"\x44\0\0\0\0\0\0\0\x01\0\0\0\x20\0\x50\x60"),
            (60, b"\x48\x31\xC0\xE8\0\0\0\0\x04\0\0\0\x05\0\0\0\x04\0"),
            (78, b".file\0\0\0\0\0\0\0\xFE\xFF\0\0\x67\x01"),
            (96, b"strings.asm\0\0\0\0\0\0\0"),
            (114, b".text\0\0\0\0\0\0\0\x01\0\0\0\x03\x01"),
            (132, b"\x08\0\0\0\x01\0\0\0\0\0\0\0\0\0\0\0\0\0"),
            (150, b".absolut\0\0\0\0\xFF\xFF\0\0\x03\0"),
            (168, b"\0\0\0\0\x04\0\0\0\0\0\0\0\0\0\0\0\x02\0"),
            (186, b"main\0\0\0\0\0\0\0\0\x01\0\0\0\x02\0"),
            (204, b"\x10\0\0\0ExitProcess\0"),
        ],
    )
}
