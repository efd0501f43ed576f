//! The bytes that the Authenticode digest of an image covers: the file without its checksum, without the entry of the
//! data directories that leads to its certificates, and without the certificates. Zeros follow, as many as fill up the
//! file without its certificates to a multiple of eight, since that is where certificates are attached. See Microsoft's
//! [Process for Generating the Authenticode PE Image Hash][process].
//!
//! [process]: https://learn.microsoft.com/windows/win32/debug/pe-format#process-for-generating-the-authenticode-pe-image-hash

ghost use Rattle.std.specs.Prelude.{◌≡◌, ◌+◌, ◌-◌, ◌^◌, ◌<◌, ◌≤◌, ◌⊎◌, Ok, drop, false, length, min, take};
ghost use Rattle.std.specs.Result.{IfOk};
ghost use Rattle.pe_core.specs.Header.{header_view, optional_header_view};
ghost use Rattle.pe_core.specs.Refusals.{Returns, ReturnsAs};
ghost use Rattle.pe_sign.specs.declared.digest.LeftOut.{LeftOut};
ghost use Rattle.pe_sign.specs.Digest.{AreSides, left_out_of, is_in, is_left_out, kept_bytes, digested, zeros_after, Throughout, IsCut, joined_slices, ranges_view, covered, digest_of};

use crate::image_checksum::checksum_range;
use pe_core::{ByteRange, Header, OptionalHeader, Result};

/// The index of the directory of certificates.
const CERTIFICATES: usize = 4;

/// The offset of its entry from the first entry of the directories.
const ENTRY_OF_CERTIFICATES: usize = 32;

/// The length of an entry of the directories.
pub const SIZE_OF_ENTRY: usize = 8;

/// The parts of a file that its digest leaves out, as file ranges. A part that is missing has the length 0. Ranges may
/// end after the file, and may overlap in a hostile image.
#[derive(Clone, Copy)]
pub struct LeftOut {
    /// The field of the checksum.
    pub checksum: ByteRange,
    /// The entry of the data directories that leads to the certificates.
    pub directory_entry: ByteRange,
    /// The certificates.
    pub certificates: ByteRange,
}

/// Where the entry of the certificates is, in an image with this PE pointer.
fn entry_range(pe_pointer: u32, optional_header: &OptionalHeader) -> ByteRange
    ensures { result ≡ Rattle.pe_sign.specs.Digest.entry_range pe_pointer (optional_header_view optional_header.now) }
{
    if optional_header.data_directories.rows().len() <= CERTIFICATES {
        return ByteRange::EMPTY;
    }
    let directories = if optional_header.standard_fields.magic == 0x20B {
        112
    } else {
        96
    };
    ByteRange {
        offset: pe_pointer as usize + 24 + directories + ENTRY_OF_CERTIFICATES,
        length: SIZE_OF_ENTRY,
    }
}

/// The parts that the digest of an image with this header leaves out. Error: `NoOptionalHeader`.
pub fn left_out(header: &Header<'_>) -> Result<LeftOut>
    ensures { Returns result (left_out_of (header_view header.now)) }
{
    let checksum = checksum_range(header)?;
    let mut left_out = LeftOut {
        checksum,
        directory_entry: ByteRange::EMPTY,
        certificates: ByteRange::EMPTY,
    };
    if let Some(optional_header) = &header.optional_header {
        left_out.directory_entry = entry_range(header.dos_header.pe_pointer, optional_header);
        if let Some(directory) = optional_header.data_directories.get(CERTIFICATES) {
            left_out.certificates = ByteRange {
                offset: directory.virtual_address as usize,
                length: directory.size as usize,
            };
        }
    }
    Ok(left_out)
}

/// A part of a file: where it starts in the file, and its bytes.
#[derive(Clone, Copy)]
struct Part<'a> {
    offset: usize,
    bytes: &'a [u8],
}

/// The index in a part of the byte at a file offset: 0 if the offset is before the part, its length if it is after it.
fn index_in(part: Part<'_>, offset: usize) -> usize
    ensures inside { result ≤ length part.entry.bytes.now }
    ensures before { (part.entry.offset + result ≤ offset) ⊎ (result ≡ 0) }
    ensures after { (offset ≤ part.entry.offset + result) ⊎ (result ≡ length part.entry.bytes.now) }
    ensures index { result ≡ min (offset - part.entry.offset) (length part.entry.bytes.now) }
{
    if offset <= part.offset {
        0
    } else if offset - part.offset <= part.bytes.len() {
        offset - part.offset
    } else {
        part.bytes.len()
    }
}

/// What is before a range and what is after it.
fn cut<'a>(part: Part<'a>, range: ByteRange) -> (Part<'a>, Part<'a>)
    requires { part.offset + length part.bytes.now < 2 ^ 64 }
    ensures cut { IsCut range part.entry result.0 result.1 }
    ensures before { result.0.bytes.now
        ≡ take (range.offset - part.entry.offset) part.entry.bytes.now }
    ensures after { result.1.bytes.now
        ≡ drop (range.offset + range.length - part.entry.offset) part.entry.bytes.now }
    ensures offset { result.1.offset ≡ part.entry.offset
        + min (range.offset + range.length - part.entry.offset) (length part.entry.bytes.now) }
{
    let start = index_in(part, range.offset);
    let end = index_in(part, range.offset.saturating_add(range.length));
    let before = Part {
        offset: part.offset,
        bytes: &part.bytes[..start],
    };
    let after = Part {
        offset: part.offset + end,
        bytes: &part.bytes[end..],
    };
    (before, after)
}

/// The slices of a part that is outside the certificates: without the checksum, and without the directory's entry.
fn without_fields<'a>(part: Part<'a>, left_out: &LeftOut) -> [&'a [u8]; 4]
    requires room { part.offset + length part.bytes.now < 2 ^ 64 }
    requires apart { Throughout (is_in left_out.now.certificates) false part.offset part.bytes.now }
    ensures { joined_slices result ≡ kept_bytes
        (is_left_out left_out.now) part.entry.offset part.entry.bytes.now }
{
    let (first, second) = cut(part, left_out.checksum);
    let (a, b) = cut(first, left_out.directory_entry);
    let (c, d) = cut(second, left_out.directory_entry);
    [a.bytes, b.bytes, c.bytes, d.bytes]
}

/// What the Authenticode digest of an image covers: slices of the file, in their order there, and then zeros. Slices may
/// be empty.
#[derive(Clone, Copy)]
pub struct AuthenticodeRanges<'a> {
    /// The slices before the certificates; without these they are empty.
    pub before_certificates: [&'a [u8]; 4],
    /// The slices after the certificates.
    pub after_certificates: [&'a [u8]; 4],
    /// How many bytes of zero follow them, fewer than eight.
    pub zeros: usize,
}

/// What the digest of a file covers that leaves out these parts.
pub fn ranges_without<'a>(bytes: &'a [u8], left_out: &LeftOut) -> AuthenticodeRanges<'a>
    ensures value { ranges_view result ≡ covered left_out.now bytes.entry.now }
    ensures sides { AreSides left_out.now bytes.entry.now result }
{
    let whole = Part { offset: 0, bytes };
    let (front, back) = cut(whole, left_out.certificates);
    let length = front.bytes.len() + back.bytes.len();
    AuthenticodeRanges {
        before_certificates: without_fields(front, left_out),
        after_certificates: without_fields(back, left_out),
        zeros: (8 - length % 8) % 8,
    }
}

/// What the Authenticode digest of an image covers. `bytes` is the whole file, and `header` is the image's. Where its
/// parts overlap or end after the file, which no linker writes, the digest covers the bytes that are in none of them.
/// Error: `NoOptionalHeader`.
#[tactic(auto, using(crate::proofs::Slices::sides_of))]
pub fn authenticode_ranges<'a>(
    bytes: &'a [u8],
    header: &Header<'_>,
) -> Result<AuthenticodeRanges<'a>>
    ensures value { ReturnsAs ranges_view result (digest_of bytes.entry.now (header_view header.now)) }
    ensures sides { IfOk result (λ r. (l : LeftOut) → left_out_of (header_view header.now) ≡ Ok l →
        AreSides l bytes.entry.now r) }
{
    let left_out = left_out(header)?;
    Ok(ranges_without(bytes, &left_out))
}
