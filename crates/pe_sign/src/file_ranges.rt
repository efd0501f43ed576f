//! The file ranges that the Authenticode digest of an image covers, for callers that cannot take slices. Three parts are
//! left out of the file, so there are at most four ranges: in an image that a linker wrote, before the checksum, between
//! that and the entry of the certificates, from there to the certificates, and mostly nothing after these. See Microsoft's
//! [Process for Generating the Authenticode PE Image Hash][process].
//!
//! [process]: https://learn.microsoft.com/windows/win32/debug/pe-format#process-for-generating-the-authenticode-pe-image-hash

ghost use Rattle.std.specs.Prelude.{◌≡◌, ◌+◌, ◌<◌, ◌≤◌, false, true, length};
ghost use Rattle.pe_core.specs.Header.{header_view};
ghost use Rattle.pe_core.specs.Refusals.{Returns};
ghost use Rattle.pe_sign.specs.Digest.{is_in, is_left_out};
ghost use Rattle.pe_sign.specs.DigestRanges.{digest_ranges_of, in_array, kept_ranges};
ghost use Rattle.pe_sign.specs.DigestSteps.{Between, IsFirstRange, parts_after};

use crate::digest::{LeftOut, left_out, ranges_without};
use pe_core::{ByteRange, Header, Result};

/// Whether a file offset is in a range.
fn is_in(range: ByteRange, offset: usize) -> bool
    ensures { result ≡ is_in range offset }
{
    range.offset <= offset && offset - range.offset < range.length
}

/// Whether a file offset is in a part that is left out.
fn is_left_out(left_out: &LeftOut, offset: usize) -> bool
    ensures { result ≡ is_left_out left_out.now offset }
{
    is_in(left_out.checksum, offset)
        || is_in(left_out.directory_entry, offset)
        || is_in(left_out.certificates, offset)
}

/// The offset itself if the range does not have it, else the end of the range, at most `end`.
#[tactic(auto, using(crate::proofs::RangeSteps::in_range))]
fn past(range: ByteRange, offset: usize, end: usize) -> usize
    requires { offset ≤ end }
    ensures after { offset ≤ result }
    ensures within { result ≤ end }
    ensures passed { Between (is_in range) true offset result }
    ensures moves { is_in range offset ≡ true → offset < end → offset < result }
{
    if !is_in(range, offset) {
        return offset;
    }
    let left = range.length - (offset - range.offset);
    offset + left.min(end - offset)
}

/// The end of the parts that have the offset, one after the other, at most `end`.
#[tactic(auto, using(crate::proofs::RangeSteps::passed_three, crate::proofs::RangeSteps::moves_three))]
fn past_parts(left_out: &LeftOut, offset: usize, end: usize) -> usize
    requires { offset ≤ end }
    ensures after { offset ≤ result }
    ensures within { result ≤ end }
    ensures passed { Between (is_left_out left_out.now) true offset result }
    ensures moves { is_left_out left_out.now offset ≡ true → offset < end → offset < result }
{
    let first = past(left_out.checksum, offset, end);
    let second = past(left_out.directory_entry, first, end);
    past(left_out.certificates, second, end)
}

/// The first offset from `from` on that is not left out, or `end`.
fn first_kept(left_out: &LeftOut, from: usize, end: usize) -> usize
    requires { from ≤ end }
    ensures after { from ≤ result }
    ensures within { result ≤ end }
    ensures passed { Between (is_left_out left_out.now) true from result }
    ensures kept { result < end → is_left_out left_out.now result ≡ false }
{
    let mut at = from;
    while at < end && is_left_out(left_out, at) {
        at = past_parts(left_out, at, end);
    }
    at
}

/// The start of the range if it has bytes and starts after `start` and before `end`, else `end`.
#[tactic(auto, using(crate::proofs::RangeSteps::starts_later, crate::proofs::RangeSteps::is_over, crate::proofs::RangeSteps::has_none, crate::proofs::RangeSteps::has_first))]
fn until(range: ByteRange, start: usize, end: usize) -> usize
    requires { start < end }
    ensures after { start < result }
    ensures within { result ≤ end }
    ensures passed { is_in range start ≡ false → Between (is_in range) false start result }
    ensures stops { result < end → (is_in range result ≡ true) × (result ≡ range.offset) }
{
    if range.length == 0 {
        return end;
    }
    if range.offset <= start || end <= range.offset {
        return end;
    }
    range.offset
}

/// The first offset after `start` that is left out, or `end`.
fn first_left_out(left_out: &LeftOut, start: usize, end: usize) -> usize
    requires before { start < end }
    requires kept { is_left_out left_out.now start ≡ false }
    ensures after { start < result }
    ensures within { result ≤ end }
    ensures passed { Between (is_left_out left_out.now) false start result }
    ensures stops { result < end → is_left_out left_out.now result ≡ true }
    ensures fewer { result < end → parts_after left_out.now result < parts_after left_out.now start }
{
    let first = until(left_out.checksum, start, end);
    let second = until(left_out.directory_entry, start, first);
    until(left_out.certificates, start, second)
}

/// The first range from `from` on of the offsets that are not left out, and the offset after it; no bytes and `end`
/// without one.
fn first_range(left_out: &LeftOut, from: usize, end: usize) -> (ByteRange, usize)
    requires { from ≤ end }
    ensures range { IsFirstRange (is_left_out left_out.now) end from result.0 result.1 }
    ensures after { from ≤ result.1 }
    ensures within { result.1 ≤ end }
    ensures fewer { result.1 < end → parts_after left_out.now result.1 < parts_after left_out.now from }
{
    let start = first_kept(left_out, from, end);
    if start == end {
        return (ByteRange::EMPTY, end);
    }
    let stop = first_left_out(left_out, start, end);
    let range = ByteRange {
        offset: start,
        length: stop - start,
    };
    (range, stop)
}

/// The ranges of a file of `end` bytes that are not left out. Each but the last ends where a part starts, so there are at
/// most four.
fn kept_ranges(left_out: &LeftOut, end: usize) -> [ByteRange; 4]
    ensures { result ≡ in_array 4 (kept_ranges (is_left_out left_out.now) 0 end) }
{
    let (first, to) = first_range(left_out, 0, end);
    let (second, to) = first_range(left_out, to, end);
    let (third, to) = first_range(left_out, to, end);
    let (fourth, _) = first_range(left_out, to, end);
    [first, second, third, fourth]
}

/// What the Authenticode digest of an image covers, as file ranges, and zeros after them.
#[derive(Clone, Copy)]
pub struct DigestRanges {
    /// In the order of the file; none touches the next. Those that are not needed are at the end, and empty at offset 0.
    pub ranges: [ByteRange; 4],
    /// How many bytes of zero follow them, fewer than eight.
    pub zeros: usize,
}

/// What the Authenticode digest of an image covers: the bytes of [`crate::authenticode_ranges`], as ranges of the file.
/// `bytes` is the whole file, and `header` is the image's. Error: `NoOptionalHeader`.
pub fn digest_ranges(bytes: &[u8], header: &Header<'_>) -> Result<DigestRanges>
    ensures { Returns result (digest_ranges_of bytes.now (header_view header.now)) }
{
    let left_out = left_out(header)?;
    Ok(DigestRanges {
        ranges: kept_ranges(&left_out, bytes.len()),
        zeros: ranges_without(bytes, &left_out).zeros,
    })
}
