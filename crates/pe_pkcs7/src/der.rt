//! DER (X.690), by which signatures and certificates are written: elements, each a tag, the length of its content, and
//! the content, which may be elements again.

ghost use Rattle.std.specs.Prelude.{◌≡◌, ◌+◌, ◌≤◌, ◌<◌, length, IfOk};
ghost use Rattle.pe_pkcs7.specs.Der.{be, lacks, is_end_of_contents, has_octets, length_octets, content_length, element_at};

use crate::error::{Result, SignatureError};
use crate::tags::{BIT_STRING, BOOLEAN, ENUMERATED, INTEGER, OBJECT_IDENTIFIER};

/// The tag number that says that the number follows in octets of its own.
const TAG_NUMBER_FOLLOWS: u8 = 31;

/// The first octet of a length that is indefinite; above it, how many octets follow plus this.
const LONG_FORM: u8 = 0x80;

/// The most octets of a length after its first one: 4 GB.
const MOST_LENGTH_OCTETS: u8 = 4;

/// An element, by where it is. Every offset counts from the start of the signature's bytes.
#[derive(Clone, Copy, Debug, PartialEq)]
pub struct Element {
    /// The identifier octet: the class in bits 6 and 7, bit 5 if the content is elements again, the tag number below it.
    pub tag: u8,
    /// The offset of the identifier octet.
    pub offset: usize,
    /// The offset of the content.
    pub content: usize,
    /// The offset of the first byte after the content.
    pub end: usize,
}

/// The number in `n` octets, the first the highest.
#[tactic(auto, unfolding(crate::specs::Der::be))]
fn big_endian(bytes: &[u8], offset: usize, n: u8) -> u32
    requires few { n ≤ 4 }
    requires there { offset + n ≤ length bytes.now }
    ensures { result ≡ be bytes.now offset n }
{
    match n {
        0 => 0,
        1 => u32::from(bytes[offset]),
        2 => u32::from_le_bytes([bytes[offset + 1], bytes[offset], 0, 0]),
        3 => u32::from_le_bytes([bytes[offset + 2], bytes[offset + 1], bytes[offset], 0]),
        _ => u32::from_le_bytes([
            bytes[offset + 3],
            bytes[offset + 2],
            bytes[offset + 1],
            bytes[offset],
        ]),
    }
}

/// Whether fewer than `n` bytes follow `offset`.
fn lacks(bytes: &[u8], offset: usize, n: usize) -> bool
    ensures { result ≡ lacks bytes.now offset n }
{
    // Subtracted, not added: `offset + n` may overflow.
    bytes.len() < n || bytes.len() - n < offset
}

/// Whether an identifier octet is that of the end of contents, primitive or constructed.
fn is_end_of_contents(tag: u8) -> bool
    ensures { result ≡ is_end_of_contents tag }
{
    tag == 0x00 || tag == 0x20
}

/// Whether the content of a type has an octet at least.
fn has_octets(tag: u8) -> bool
    ensures { result ≡ has_octets tag }
{
    tag == BOOLEAN
        || tag == INTEGER
        || tag == BIT_STRING
        || tag == OBJECT_IDENTIFIER
        || tag == ENUMERATED
}

/// How many octets of the length follow its first one. Errors, in order: `Truncated`, `TagNumber`, `EndOfContents`,
/// `IndefiniteLength`, `LengthOctets`, `Truncated`.
#[tactic(auto, unfolding(crate::specs::Der::length_octets))]
fn length_octets(bytes: &[u8], offset: usize) -> Result<u8>
    ensures exact { result ≡ length_octets bytes.now offset }
    ensures there { IfOk result (λ n. (n ≤ 4) × (offset + 2 + n ≤ length bytes.now)) }
{
    let truncated = SignatureError::Truncated {
        offset,
        left: bytes.len().saturating_sub(offset),
    };
    if lacks(bytes, offset, 2) {
        return Err(truncated);
    }
    if bytes[offset] % 32 == TAG_NUMBER_FOLLOWS {
        return Err(SignatureError::TagNumber(offset));
    }
    if is_end_of_contents(bytes[offset]) {
        return Err(SignatureError::EndOfContents(offset));
    }
    if bytes[offset + 1] == LONG_FORM {
        return Err(SignatureError::IndefiniteLength(offset));
    }
    let octets = bytes[offset + 1].saturating_sub(LONG_FORM);
    if octets > MOST_LENGTH_OCTETS {
        return Err(SignatureError::LengthOctets { offset, octets });
    }
    if lacks(bytes, offset + 2, usize::from(octets)) {
        return Err(truncated);
    }
    Ok(octets)
}

/// The length of the content of an element whose length is there.
#[tactic(auto, unfolding(crate::specs::Der::content_length))]
fn content_length(bytes: &[u8], offset: usize, octets: u8) -> u32
    requires few { octets ≤ 4 }
    requires there { offset + 2 + octets ≤ length bytes.now }
    ensures { result ≡ content_length bytes.now offset octets }
{
    if octets == 0 {
        return u32::from(bytes[offset + 1]);
    }
    big_endian(bytes, offset + 2, octets)
}

/// The element at `offset`, where `bytes` end with its parent. Errors, in order: `Truncated`, `TagNumber`, `EndOfContents`,
/// `IndefiniteLength`, `LengthOctets`, `Truncated`, `LengthForm`, `PastParent`, `EmptyContent`.
#[tactic(auto, unfolding(crate::specs::Der::element_at))]
pub fn element_at(bytes: &[u8], offset: usize) -> Result<Element>
    ensures exact { result ≡ element_at bytes.now offset }
    ensures within { IfOk result (λ x. (offset < x.content) × (x.content ≤ x.end)
        × (x.end ≤ length bytes.now)) }
{
    let octets = length_octets(bytes, offset)?;
    let length = content_length(bytes, offset, octets);
    if octets > 0 && (bytes[offset + 2] == 0 || length < 128) {
        return Err(SignatureError::LengthForm(offset));
    }
    let content = offset + 2 + usize::from(octets);
    if lacks(bytes, content, length as usize) {
        return Err(SignatureError::PastParent {
            offset,
            length,
            left: bytes.len() - content,
        });
    }
    if has_octets(bytes[offset]) && length == 0 {
        return Err(SignatureError::EmptyContent(offset));
    }
    Ok(Element {
        tag: bytes[offset],
        offset,
        content,
        end: content + length as usize,
    })
}
