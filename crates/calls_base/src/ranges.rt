//! Ranges of the caller's bytes: results have them in place of pointers, and callers pass them back to other calls.

ghost use Rattle.std.specs.Prelude.{◌≡◌, ◌+◌, ◌≤◌};
ghost use Rattle.std.specs.Option.{option_map};
ghost use Rattle.pe_core.specs.Refusals.{ReturnsAs};
ghost use Rattle.calls_base.specs.Ranges.{bytes_at, bytes_there, range_of, range_from};

use pe_core::{ByteRange, Result, slice_at};

/// A range of the bytes of the file.
#[repr(C)]
#[derive(Clone, Copy)]
pub struct Range {
    /// File offset.
    pub offset: u64,
    /// In bytes.
    pub length: u64,
}

/// The empty range, of what is absent. A walk over it is over.
pub const NO_BYTES: Range = Range {
    offset: 0,
    length: 0,
};

/// The bytes of a range that a caller passes. `Short` where it is not inside the bytes.
pub fn slice_of<'a>(bytes: &'a [u8], range: &Range) -> Result<&'a [u8]>
    ensures { ReturnsAs (λ s. s.now) result (bytes_at bytes.entry.now range.now) }
{
    slice_at(bytes, range.offset as usize, range.length as usize)
}

/// The bytes of a range, none where they are not all there.
pub fn bytes_there<'a>(bytes: &'a [u8], range: &Range) -> &'a [u8]
    ensures { result.now ≡ bytes_there bytes.entry.now range.now }
{
    match slice_of(bytes, range) {
        Ok(bytes) => bytes,
        Err(_) => &[],
    }
}

/// A range as callers get it.
pub fn range_of(range: ByteRange) -> Range
    ensures { result ≡ range_of range }
{
    Range {
        offset: range.offset as u64,
        length: range.length as u64,
    }
}

/// The same, if there is one.
pub fn some_range(range: Option<ByteRange>) -> Option<Range>
    ensures { result ≡ option_map range_of range }
{
    range.map(range_of)
}

/// So many bytes from a file offset on, or the empty range without an offset.
pub fn range_from(length: u64, offset: Option<usize>) -> Range
    ensures { result ≡ range_from length offset }
{
    match offset {
        Some(offset) => Range {
            offset: offset as u64,
            length,
        },
        None => NO_BYTES,
    }
}

/// The range of the last `length` of `total` bytes.
pub fn last_range(total: usize, length: usize) -> Range
    requires { length ≤ total }
    ensures offset { result.offset + length ≡ total }
    ensures length { result.length ≡ length }
{
    Range {
        offset: (total - length) as u64,
        length: length as u64,
    }
}
