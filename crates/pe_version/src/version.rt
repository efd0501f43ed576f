//! What is the same in all version information, or made of its numbers alone: the keys of its blocks, and the fixed file information.
//! See Microsoft's [VS_VERSIONINFO](https://learn.microsoft.com/windows/win32/menurc/vs-versioninfo).

ghost use Rattle.std.specs.Prelude.{◌≡◌, ◌<◌, codes};
ghost use Rattle.std.specs.List.{flat_map};
ghost use Rattle.pe_core.specs.Bytes.{bytes_of};
ghost use Rattle.pe_version.specs.VersionValues.{fixed_bytes, hex_digit, key_of, utf16};

use pe_resource::{Translation, VsFixedFileInfo};

/// A hexadecimal digit.
fn hex_digit(digit: u16) -> u8
    requires { digit < 16 }
    ensures { result ≡ hex_digit digit }
{
    if digit < 10 {
        48 + digit as u8
    } else {
        55 + digit as u8
    }
}

/// The key of the table of a language and a code page: eight hexadecimal digits in UTF-16.
pub fn key_of(pair: Translation) -> [u8; 16]
    ensures { result ≡ key_of pair }
{
    let (language, code_page) = (pair.language, pair.code_page);
    [
        hex_digit(language / 4096),
        0,
        hex_digit(language / 256 % 16),
        0,
        hex_digit(language / 16 % 16),
        0,
        hex_digit(language % 16),
        0,
        hex_digit(code_page / 4096),
        0,
        hex_digit(code_page / 256 % 16),
        0,
        hex_digit(code_page / 16 % 16),
        0,
        hex_digit(code_page % 16),
        0,
    ]
}

/// The numbers of the fixed file information, in their order.
#[tactic(auto, unfolding(crate::specs::VersionValues::fixed_bytes))]
pub fn numbers_of(fixed: &VsFixedFileInfo) -> [u32; 13]
    ensures { flat_map (bytes_of 4) result ≡ fixed_bytes fixed.now }
{
    [
        fixed.signature,
        fixed.struct_version,
        fixed.file_version_ms,
        fixed.file_version_ls,
        fixed.product_version_ms,
        fixed.product_version_ls,
        fixed.file_flags_mask,
        fixed.file_flags,
        fixed.file_os,
        fixed.file_type,
        fixed.file_subtype,
        fixed.file_date_ms,
        fixed.file_date_ls,
    ]
}

/// The keys of the blocks that have one for all, in UTF-16.
pub fn root_key() -> &'static [u8]
    ensures { result.now ≡ utf16 (codes "VS_VERSION_INFO") }
{
    b"V\0S\0_\0V\0E\0R\0S\0I\0O\0N\0_\0I\0N\0F\0O\0"
}

pub fn strings_key() -> &'static [u8]
    ensures { result.now ≡ utf16 (codes "StringFileInfo") }
{
    b"S\0t\0r\0i\0n\0g\0F\0i\0l\0e\0I\0n\0f\0o\0"
}

pub fn variables_key() -> &'static [u8]
    ensures { result.now ≡ utf16 (codes "VarFileInfo") }
{
    b"V\0a\0r\0F\0i\0l\0e\0I\0n\0f\0o\0"
}

pub fn translation_key() -> &'static [u8]
    ensures { result.now ≡ utf16 (codes "Translation") }
{
    b"T\0r\0a\0n\0s\0l\0a\0t\0i\0o\0n\0"
}
