//! Why a part of a signature is not read.

/// Why a part of a signature is not read. Every offset counts from the start of the bytes that are passed.
#[derive(Clone, Copy, Debug, thiserror::Error)]
pub enum SignatureError {
    /// The parent ends before the octets of the length of an element end: its offset, and how many bytes are left there.
    #[error("element at offset {offset:#x} truncated: {left} bytes left")]
    Truncated {
        offset: usize,
        left: usize,
    },
    /// An element with a tag number above 30, which takes several octets. No element of a signature has one.
    #[error("element at offset {0:#x} has a tag number above 30")]
    TagNumber(usize),
    /// The identifier octet of the end of contents, 0: it ends an indefinite length in BER, and is no element in DER.
    #[error("end of contents at offset {0:#x}, which DER does not have")]
    EndOfContents(usize),
    /// An element whose length is indefinite, which BER allows and DER does not.
    #[error("element at offset {0:#x} has an indefinite length")]
    IndefiniteLength(usize),
    /// An element whose length has more than 4 octets after its first: 4 GB and more, or not in the shortest form.
    #[error("length of the element at offset {offset:#x} has {octets} octets, more than 4")]
    LengthOctets {
        offset: usize,
        octets: u8,
    },
    /// An element whose length could be written with fewer octets, which BER allows and DER does not.
    #[error("length of the element at offset {0:#x} is not in its shortest form")]
    LengthForm(usize),
    /// An element that ends after its parent: its offset, the length of its content, and how many bytes the parent has left
    /// from the start of the content on.
    #[error("element at offset {offset:#x} truncated: content of {length} bytes, {left} left")]
    PastParent {
        offset: usize,
        length: u32,
        left: usize,
    },
    /// A `BOOLEAN`, `INTEGER`, `BIT STRING`, `OBJECT IDENTIFIER` or `ENUMERATED` without an octet of content.
    #[error("element at offset {0:#x} has no content, which its type does not allow")]
    EmptyContent(usize),
    /// The offset where an element has to start, and the parent ends.
    #[error("element missing at offset {0:#x}")]
    Missing(usize),
    /// An element that has another tag than the grammar wants there: its offset, and both identifier octets.
    #[error("element at offset {offset:#x} has the tag {found:#04x}, not {expected:#04x}")]
    Tag {
        offset: usize,
        expected: u8,
        found: u8,
    },
    /// Bytes after the last field of a `SEQUENCE`: the offset of the first, and how many there are.
    #[error("{left} bytes after the last field, at offset {offset:#x}")]
    Trailing {
        offset: usize,
        left: usize,
    },
    /// A content of another type than the one that is read: the offset of its type.
    #[error("content type at offset {0:#x} is another")]
    ContentType(usize),
    /// An element that is no time: its offset.
    #[error("no time at offset {0:#x}")]
    BadTime(usize),
}

/// The result of a call that may fail with `SignatureError`.
pub type Result<T> = std::result::Result<T, SignatureError>;
