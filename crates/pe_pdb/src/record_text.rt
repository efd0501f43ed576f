//! The text of a record. It stands near the end of the content, where `text_at` of pe_core reads no 16 bytes at once: so short texts
//! are read byte by byte, and one that is ASCII needs no test of UTF-8.

ghost use Rattle.std.specs.Prelude.{◌≡◌, IfSome};
ghost use Rattle.std.specs.Option.{option_map};
ghost use Rattle.pe_core.specs.Text.{text_at};
ghost use Rattle.pe_core.specs.ZeroRuns.{IsAsciiText};

use pe_core::text_at;

/// How many bytes are left at most of a content that is read byte by byte.
const FEW: usize = 32;

/// The index of the first zero at or after `start`, if the bytes before it are ASCII.
#[inline(always)]
fn ascii_end(bytes: &[u8], start: usize) -> Option<usize>
    ensures { IfSome result (IsAsciiText bytes.now start) }
{
    let mut end = start;
    while end < bytes.len() {
        let byte = bytes[end];
        if byte == 0 {
            return Some(end);
        }
        if byte >= 0x80 {
            return None;
        }
        end += 1;
    }
    None
}

/// The text at an offset of a record's content. `None` if it is not NUL-terminated, or not UTF-8.
pub(crate) fn record_text(content: &[u8], offset: usize) -> Option<&str>
    ensures { option_map (λ s. s.now) result ≡ text_at content.now offset }
{
    if content.len().saturating_sub(offset) > FEW {
        return text_at(content, offset);
    }
    match ascii_end(content, offset) {
        // SAFETY: ASCII is UTF-8.
        Some(end) => Some(unsafe { str::from_utf8_unchecked(&content[offset..end]) }),
        None => text_at(content, offset),
    }
}
