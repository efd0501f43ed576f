//! Ranges of a byte slice: an offset and a length.

ghost use Rattle.std.specs.Prelude.{◌≡◌};
ghost use Rattle.pe_core.specs.Offsets.{bytes_in, IsWithin};

/// A range of the bytes that were passed.
#[derive(Clone, Copy, Debug, Default, PartialEq)]
pub struct ByteRange {
    /// The offset of the first byte, from the start of those bytes.
    pub offset: usize,
    /// The length in bytes.
    pub length: usize,
}

impl ByteRange {
    /// The range of no bytes.
    pub const EMPTY: ByteRange = ByteRange {
        offset: 0,
        length: 0,
    };

    /// The bytes of the range, which the caller knows to lie in `bytes`.
    pub fn of<'a>(self, bytes: &'a [u8]) -> &'a [u8]
        requires { IsWithin bytes.now self }
        ensures { result.now ≡ bytes_in bytes.entry.now self }
    {
        &bytes[self.offset..self.offset + self.length]
    }
}
