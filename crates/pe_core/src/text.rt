//! Texts: bytes that are UTF-8, NUL-terminated where they stand in a table of the image.

ghost use Rattle.std.specs.Prelude.{◌≡◌, ◌==◌, IfSome, drop};
ghost use Rattle.std.specs.List.{before_first};
ghost use Rattle.std.specs.Option.{option_map};
ghost use Rattle.pe_core.specs.Text.{text_of, text_at};

use crate::first_zero::{ascii_text_end, first_zero};

/// The bytes of a text in which `text_at` first looks for ASCII alone: nearly all names have fewer.
const MOST_OF_NAME: usize = 1024;

/// The bytes as text. `None` if they are not UTF-8.
#[tactic(auto, using(crate::proofs::Texts::utf8_tests))]
pub(crate) fn text_of(bytes: &[u8]) -> Option<&str>
    ensures { option_map (λ s. s.now) result ≡ text_of bytes.now }
{
    str::from_utf8(bytes).ok()
}

/// The bytes before the first zero, or all of them.
#[tactic(auto, using(crate::proofs::Texts::before_zero))]
pub(crate) fn before_zero(bytes: &[u8]) -> &[u8]
    ensures { result.now ≡ before_first (λ c. c == 0) bytes.now }
{
    match first_zero(bytes) {
        Some(length) => &bytes[..length],
        None => bytes,
    }
}

/// The bytes from `offset` on. Empty past their end.
#[tactic(auto, using(crate::proofs::Texts::rests))]
pub(crate) fn from_offset(bytes: &[u8], offset: usize) -> &[u8]
    ensures { result.now ≡ drop offset bytes.now }
{
    if offset <= bytes.len() {
        &bytes[offset..]
    } else {
        &[]
    }
}

/// The text at `offset`, if it is ASCII and has fewer than `most` bytes, or a few more: such a text needs no test of UTF-8.
/// Most names are such texts.
pub(crate) fn ascii_text_at(bytes: &[u8], offset: usize, most: usize) -> Option<&str>
    ensures { IfSome result (λ text. text_at bytes.now offset ≡ Some text.now) }
{
    let end = ascii_text_end(bytes, offset, most)?;
    // SAFETY: ASCII is UTF-8.
    Some(unsafe { str::from_utf8_unchecked(&bytes[offset..end]) })
}

/// The text at `offset`: the bytes from there up to the first zero. `None` if it is not NUL-terminated or not
/// UTF-8, or if the offset is past the end.
#[tactic(auto, using(crate::proofs::Texts::to_zero))]
pub fn text_at(bytes: &[u8], offset: usize) -> Option<&str>
    ensures { option_map (λ s. s.now) result ≡ text_at bytes.now offset }
{
    if let Some(text) = ascii_text_at(bytes, offset, MOST_OF_NAME) {
        return Some(text);
    }
    let rest = from_offset(bytes, offset);
    let length = first_zero(rest)?;
    text_of(&rest[..length])
}
