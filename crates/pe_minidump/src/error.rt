//! Why a dump, or a stream of one, is not read.

/// Why a dump, or a stream of it, is not read. A stream that is refused leaves all others as they are.
#[derive(Clone, Copy, Debug, thiserror::Error)]
pub enum DumpError {
    /// A record of fixed size is truncated: how many bytes it has, and how many there are.
    #[error("record truncated: {needed} bytes needed, {length} left")]
    Short { needed: usize, length: usize },
    /// The first four bytes, which are not `MDMP`.
    #[error("invalid signature {0:#x} of a minidump")]
    Signature(u32),
    /// The version, the low 16 bits of which are not A793h.
    #[error("invalid version {0:#x} of a minidump")]
    Version(u32),
    /// The directory does not lie in the file: its offset, the number of its entries, and how many bytes the file has.
    #[error("directory of {count} entries at offset {rva:#x} passes the end of the file, {length} bytes")]
    Directory { rva: u32, count: u32, length: usize },
    /// Bytes that do not lie in the file: their offset and size, and how many bytes the file has. The size is 2^64 - 1 for the
    /// pieces of a full dump, if they end past offset 2^64 - 1.
    #[error("{size} bytes at offset {rva:#x} pass the end of the file, {length} bytes")]
    Location { rva: u64, size: u64, length: usize },
    /// The number of entries of a list, which do not have the size of its stream.
    #[error("list of {count} entries in a stream of {size} bytes")]
    ListSize { count: u64, size: usize },
    /// The size that the header of a list says its entries have, which is below that of their fields.
    #[error("entries of {size} bytes, smaller than {needed}")]
    EntrySize { size: u32, needed: usize },
    /// The offset of a string that has an odd number of bytes.
    #[error("string at offset {rva:#x} has an odd number of bytes: {size}")]
    Text { rva: u64, size: u32 },
    /// The size of a context in bytes, which is below that of its fields.
    #[error("context of {size} bytes, smaller than {needed}")]
    ContextSize { size: usize, needed: usize },
    /// The flags of a context, without those that say that control and integer registers are there.
    #[error("context flags {0:#x}: control or integer registers are missing")]
    ContextFlags(u32),
    /// The flags of a context of another machine.
    #[error("context flags {0:#x} are of another machine")]
    Machine(u32),
}

/// The result of a call that may fail with `DumpError`.
pub type Result<T> = std::result::Result<T, DumpError>;
