//! Texts for programs in C: GUIDs as they are written, texts in UTF-16 as UTF-8, each with a final zero, and whether a text ends
//! with a zero where it stands, so that it can be used there.
//! https://learn.microsoft.com/windows/win32/api/guiddef/ns-guiddef-guid

ghost use Rattle.std.specs.Char.Utf16.{is_high_surrogate, is_low_surrogate, lone_unit_char, surrogate_pair_char, utf16_lossy_chars};
ghost use Rattle.std.specs.Option.{unwrap_or};
ghost use Rattle.std.specs.Prelude.{◌≡◌, ◌+◌, ◌*◌, ◌<◌, ◌≤◌, ◌/◌, ◌%◌, ◌==◌, ◌∷◌, true, drop, length, nat_lt, position, slice_get};
ghost use Rattle.pe_core.specs.Bytes.{splice};
ghost use Rattle.pe_resource.specs.VersionStrings.{units};
ghost use Rattle.calls_base.specs.EndedTexts.{PutsIf, truncated_text, ended, second_of, hex_digit, hex_digits, hyphenated, one_if_zero, text_in, unhyphenated, utf16_text};
ghost use Rattle.pe_core.specs.Refusals.{answer_of};

use crate::ranges::{Range, slice_of};
use crate::results::{DONE, ROOM};
use pe_core::{Result, read_u16, set_slice};

/// A text in the caller's bytes.
#[repr(C)]
#[derive(Clone, Copy)]
pub struct TextInBytes {
    /// The bytes before the first zero.
    pub text: Range,
    /// 1 where a zero follows them, so that a program in C can use the text where it stands. Else 0.
    pub is_terminated: u32,
    /// 0.
    pub spare: u32,
}

/// The size of a GUID in bytes.
pub const SIZE_OF_GUID: usize = 16;

/// Writes a text and a zero to the start of a room.
#[tactic(auto, using(crate::proofs::Utf16Texts::text_and_zero))]
fn put_with_zero(text: &[u8], room: &mut [u8])
    requires { length text.now < length room.old }
    ensures { room.new ≡ splice room.old 0 (ended text.now) }
{
    set_slice(room, 0, text);
    set_slice(room, text.len(), &[0]);
}

/// Writes as much of a text as a room has bytes for before a zero.
#[tactic(auto, using(crate::proofs::Utf16Texts::cut_is))]
pub fn put_truncated(text: &[u8], room: &mut [u8])
    ensures { room.new ≡ truncated_text room.old text.now }
{
    if room.is_empty() {
        return;
    }
    let count = text.len().min(room.len() - 1);
    put_with_zero(text.split_at(count).0, room);
}

/// Writes a text and a zero, if the room has more bytes than the text.
#[tactic(auto, using(crate::proofs::Utf16Texts::has_room))]
pub fn put_ended(text: &[u8], room: &mut [u8], written: &mut u64) -> u32
    ensures { PutsIf (nat_lt (length text.now) (length room.old))
        result room.old room.new written.new text.now }
{
    let length = text.len();
    if room.len() <= length {
        *written = length as u64 + 1;
        return ROOM;
    }
    put_with_zero(text, room);
    *written = length as u64;
    DONE
}

/// A hexadecimal digit.
fn hex_digit(digit: u8) -> u8
    requires { digit < 16 }
    ensures { result ≡ hex_digit digit }
{
    if digit < 10 {
        0x30 + digit
    } else {
        0x37 + digit
    }
}

/// The digits of four bytes.
fn digits_of(bytes: [u8; 4]) -> [u8; 8]
    ensures { result ≡ hex_digits bytes }
{
    let [a, b, c, d] = bytes;
    [
        hex_digit(a / 16),
        hex_digit(a % 16),
        hex_digit(b / 16),
        hex_digit(b % 16),
        hex_digit(c / 16),
        hex_digit(c % 16),
        hex_digit(d / 16),
        hex_digit(d % 16),
    ]
}

/// The GUID at the start of some bytes, with hyphens.
#[tactic(auto, unfolding(crate::specs::EndedTexts::hyphenated))]
pub fn hyphenated(guid: &[u8]) -> [u8; 36]
    requires { 16 ≤ length guid.now }
    ensures { result ≡ hyphenated guid.now }
{
    let a = digits_of([guid[3], guid[2], guid[1], guid[0]]);
    let b = digits_of([guid[5], guid[4], guid[7], guid[6]]);
    let c = digits_of([guid[8], guid[9], guid[10], guid[11]]);
    let d = digits_of([guid[12], guid[13], guid[14], guid[15]]);
    [
        a[0], a[1], a[2], a[3], a[4], a[5], a[6], a[7], 0x2D, b[0], b[1], b[2], b[3], 0x2D, b[4],
        b[5], b[6], b[7], 0x2D, c[0], c[1], c[2], c[3], 0x2D, c[4], c[5], c[6], c[7], d[0], d[1],
        d[2], d[3], d[4], d[5], d[6], d[7],
    ]
}

/// The same without hyphens.
#[tactic(auto, unfolding(crate::specs::EndedTexts::unhyphenated))]
pub fn unhyphenated(guid: &[u8]) -> [u8; 32]
    requires { 16 ≤ length guid.now }
    ensures { result ≡ unhyphenated guid.now }
{
    let a = digits_of([guid[3], guid[2], guid[1], guid[0]]);
    let b = digits_of([guid[5], guid[4], guid[7], guid[6]]);
    let c = digits_of([guid[8], guid[9], guid[10], guid[11]]);
    let d = digits_of([guid[12], guid[13], guid[14], guid[15]]);
    [
        a[0], a[1], a[2], a[3], a[4], a[5], a[6], a[7], b[0], b[1], b[2], b[3], b[4], b[5], b[6],
        b[7], c[0], c[1], c[2], c[3], c[4], c[5], c[6], c[7], d[0], d[1], d[2], d[3], d[4], d[5],
        d[6], d[7],
    ]
}

/// Whether a code unit is the first of a pair.
fn is_high(unit: u16) -> bool
    ensures { result ≡ is_high_surrogate unit }
{
    0xD800 <= unit && unit < 0xDC00
}

/// Whether a code unit is the second of a pair.
fn is_low(unit: u16) -> bool
    ensures { result ≡ is_low_surrogate unit }
{
    0xDC00 <= unit && unit < 0xE000
}

/// The character of a pair.
fn of_pair(high: u16, low: u16) -> char
    requires high { is_high_surrogate high ≡ true }
    requires low { is_low_surrogate low ≡ true }
    ensures { result ≡ surrogate_pair_char high low }
{
    let code = 0x1_0000 + (u32::from(high) - 0xD800) * 0x400 + (u32::from(low) - 0xDC00);
    char::from_u32(code).unwrap_or('\u{FFFD}')
}

/// The character of a code unit that is in no pair, U+FFFD for a surrogate.
fn of_unit(unit: u16) -> char
    ensures { result ≡ unwrap_or (lone_unit_char unit) 0xFFFD }
{
    char::from_u32(u32::from(unit)).unwrap_or('\u{FFFD}')
}

/// The second code unit of a text, if its first two are a pair.
#[tactic(auto, using(crate::proofs::Utf16Texts::second_there))]
fn second_of(text: &[u8]) -> Option<u16>
    requires { 2 ≤ length text.now }
    ensures { result ≡ second_of text.now }
{
    if !is_high(read_u16(text, 0)) || text.len() < 4 {
        return None;
    }
    let next = read_u16(text, 2);
    if is_low(next) { Some(next) } else { None }
}

/// The first character of a text in UTF-16, and how many bytes its code units have.
#[tactic(auto, using(crate::proofs::Utf16Texts::first_alone, crate::proofs::Utf16Texts::first_pair, crate::proofs::Utf16Texts::second_there))]
fn first_character(text: &[u8]) -> (char, usize)
    requires { 2 ≤ length text.now }
    ensures some { 2 ≤ result.1 }
    ensures most { result.1 ≤ length text.now }
    ensures first { utf16_lossy_chars (units text.now)
        ≡ result.0 ∷ utf16_lossy_chars (units (drop result.1 text.now)) }
{
    let unit = read_u16(text, 0);
    match second_of(text) {
        Some(next) => (of_pair(unit, next), 4),
        None => (of_unit(unit), 2),
    }
}

/// How many bytes a text in UTF-16 has in UTF-8.
#[tactic(auto, using(crate::proofs::Utf16Texts::more_length, crate::proofs::Utf16Texts::no_text))]
fn length_in_utf8(text: &[u8]) -> usize
    ensures length { result ≡ length (utf16_text text.now) }
    ensures small { result ≤ 2 * length text.now }
{
    let mut length = 0;
    let mut rest = text;
    while 2 <= rest.len() {
        let (character, size) = first_character(rest);
        length += character.len_utf8();
        rest = rest.split_at(size).1;
    }
    length
}

/// Writes the first character of a text, and returns how many bytes its code units have, and how many it has in UTF-8.
fn put_first(text: &[u8], room: &mut [u8], at: usize) -> (usize, usize)
    requires some { 2 ≤ length text.now }
    requires fits { at + length (utf16_text text.now) < length room.old }
    ensures some { 2 ≤ result.0 }
    ensures most { result.0 ≤ length text.now }
    ensures left { splice room.new (at + result.1) (ended (utf16_text (drop result.0 text.now)))
        ≡ splice room.old at (ended (utf16_text text.now)) }
    ensures fits { at + result.1 + length (utf16_text (drop result.0 text.now)) < length room.new }
{
    let (character, size) = first_character(text);
    let mut bytes = [0; 4];
    let written = character.encode_utf8(&mut bytes).as_bytes();
    set_slice(room, at, written);
    (size, written.len())
}

/// Writes a text in UTF-16 as UTF-8 to the start of a room, and a zero.
#[tactic(auto, using(crate::proofs::Utf16Texts::no_text))]
fn put_utf8(text: &[u8], room: &mut [u8])
    requires { length (utf16_text text.now) < length room.old }
    ensures { room.new ≡ splice room.old 0 (ended (utf16_text text.now)) }
{
    let mut at = 0;
    let mut rest = text;
    while 2 <= rest.len() {
        let (size, count) = put_first(rest, room, at);
        at += count;
        rest = rest.split_at(size).1;
    }
    set_slice(room, at, &[0]);
}

/// The same, if the room has more bytes than the text.
#[tactic(auto, using(crate::proofs::Utf16Texts::has_room))]
pub fn put_text(text: &[u8], room: &mut [u8], written: &mut u64) -> u32
    ensures { PutsIf (nat_lt (length (utf16_text text.now)) (length room.old))
        result room.old room.new written.new (utf16_text text.now) }
{
    let length = length_in_utf8(text);
    if room.len() <= length {
        *written = length as u64 + 1;
        return ROOM;
    }
    put_utf8(text, room);
    *written = length as u64;
    DONE
}

/// 1 where a byte is there and is zero, else 0.
fn one_if_zero(bytes: &[u8], at: usize) -> u32
    ensures { result ≡ one_if_zero (slice_get bytes.now at) }
{
    match bytes.get(at) {
        Some(byte) => u32::from(*byte == 0),
        None => 0,
    }
}

/// The index of the first zero.
fn first_zero(text: &[u8]) -> Option<usize>
    ensures { result ≡ position (λ c. c == 0) text.now }
{
    text.iter().position(|byte| *byte == 0)
}

pub fn text_in(bytes: &[u8], range: &Range) -> Result<TextInBytes>
    ensures { answer_of result ≡ text_in bytes.now range.now }
{
    let text = slice_of(bytes, range)?;
    Ok(match first_zero(text) {
        Some(length) => TextInBytes {
            text: Range {
                offset: range.offset,
                length: length as u64,
            },
            is_terminated: 1,
            spare: 0,
        },
        None => TextInBytes {
            text: *range,
            is_terminated: one_if_zero(bytes, range.offset as usize + text.len()),
            spare: 0,
        },
    })
}
