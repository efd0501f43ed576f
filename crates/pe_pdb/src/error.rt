//! Why a PDB, or a part of one, is not read.

ghost use Rattle.std.specs.Prelude.{◌≡◌, ◌+◌, ◌≤◌, ◌∷◌, [], IfOk, length};
ghost use Rattle.pe_core.specs.Bytes.{holds};
ghost use Rattle.pe_core.specs.Refusals.{outcome};
ghost use Rattle.pe_pdb.specs.Refusals.{PdbReturns, RecordTruncated, Short};

/// Why a PDB, or a part of it, is not read. A stream, a record or a line table that is refused leaves all others as they are.
#[derive(Clone, Copy, Debug, thiserror::Error)]
pub enum PdbError {
    /// A record of fixed size is truncated: how many bytes it has, and how many there are.
    #[error("record truncated: {needed} bytes needed, {length} left")]
    Short {
        needed: usize,
        length: usize,
    },
    /// A PDB 2.0, as compilers before 2002 wrote them: its blocks have another layout.
    #[error("a PDB 2.0, which has another layout")]
    Pdb20,
    /// A portable PDB of .NET: metadata, without blocks.
    #[error("a portable PDB of .NET, which has another layout")]
    PortablePdb,
    /// The first 32 bytes are not those of a PDB 7.0.
    #[error("not a PDB 7.0")]
    Magic,
    /// The size of a block, which is none of 512, 1024, 2048, 4096, 8192, 16384, 32768.
    #[error("invalid block size {0}")]
    BlockSize(u32),
    /// The file is shorter than its blocks: how many there are, and how many bytes the file has.
    #[error("{blocks} blocks pass the end of the file, {length} bytes")]
    FileSize {
        blocks: u32,
        length: usize,
    },
    /// The directory has more blocks than the file, or the blocks that list them are more than the superblock has room for: the
    /// size of the directory in bytes.
    #[error("directory of {0} bytes is larger than the file, or than the superblock can list")]
    BlockMap(u32),
    /// A block of the directory, of its list, or of a stream is not in the file: how many blocks the file has.
    #[error("a block lies outside of the file, which has {0} blocks")]
    Block(u32),
    /// The directory is shorter than what it lists: the number of streams, or the index of the stream whose blocks pass its end,
    /// and how many numbers of 4 bytes it has.
    #[error("directory of {words} numbers is too short for stream {stream}")]
    Directory {
        stream: u32,
        words: usize,
    },
    /// There is no stream with this index.
    #[error("no stream {0}")]
    NoStream(u32),
    /// A stream has more blocks than the file: its index, and how many bytes it says that it has.
    #[error("stream {stream} of {size} bytes has more blocks than the file")]
    StreamSize {
        stream: u32,
        size: u32,
    },
    /// A read outside of a stream: the offset, how many bytes, and how many the stream has.
    #[error("{needed} bytes at offset {offset} of a stream of {length} bytes")]
    Outside {
        offset: usize,
        needed: usize,
        length: usize,
    },
    /// The version of the info stream, which is none of those with a GUID.
    #[error("info stream of version {0}")]
    InfoVersion(u32),
    /// The DBI stream does not start with -1, as those of compilers before 1999 do not: the number with which it starts.
    #[error("DBI stream starts with {0:#x}")]
    DbiSignature(u32),
    /// The version of the DBI stream, before that of Visual C++ 7.
    #[error("DBI stream of version {0}")]
    DbiVersion(u32),
    /// The parts of the DBI stream pass its end: how many bytes its header and they have, and how many the stream has.
    #[error("parts of the DBI stream need {needed} bytes of {length}")]
    DbiParts {
        needed: usize,
        length: usize,
    },
    /// The bytes of section headers are not a multiple of 40: how many there are.
    #[error("section headers of {0} bytes")]
    SectionHeaders(usize),
    /// The size of a symbol record, which is below 2: its offset, and the size.
    #[error("symbol record at offset {offset} has size {size}")]
    RecordSize {
        offset: usize,
        size: u16,
    },
    /// A record passes the end of its bytes: its offset, how many bytes it has, and how many there are.
    #[error("record of {needed} bytes at offset {offset} of {length} bytes")]
    RecordTruncated {
        offset: usize,
        needed: usize,
        length: usize,
    },
    /// A name is not NUL-terminated, or that of a symbol is not UTF-8: its offset in the content of the symbol's record, or that
    /// of a module's name in the modules.
    #[error("name at offset {0} is not NUL-terminated, or not UTF-8")]
    Name(usize),
    /// The symbols of a module pass the end of its stream: how many bytes they have, and how many the stream has.
    #[error("symbols of {size} bytes in the stream of a module, {length} bytes")]
    ModuleSymbols {
        size: u32,
        length: usize,
    },
    /// The stream of a module does not start with 4, as those of compilers before Visual C++ 7 do not: the number with which it
    /// starts.
    #[error("stream of a module starts with {0:#x}")]
    ModuleSignature(u32),
    /// The names of source files do not start with EFFEEFFEh: the number with which they start.
    #[error("names start with {0:#x}")]
    NamesSignature(u32),
    /// The version of section contributions, which is neither F12EBA2Dh nor F13151E4h.
    #[error("section contributions of version {0:#x}")]
    ContributionsVersion(u32),
    /// The bytes of section contributions are not a multiple of the size of one: how many there are.
    #[error("section contributions of {0} bytes")]
    ContributionsSize(usize),
    /// An annotation of an inlined function is truncated, or none that is known: its offset, or that of its operand, in the
    /// annotations.
    #[error("invalid annotation at offset {0} of an inlined function")]
    Annotation(usize),
    /// More than 64 inlined functions, each in the one before it, have an offset of a procedure.
    #[error("more than 64 inlined functions at one offset of a procedure")]
    InlineDepth,
    /// Records or lines that are indexed have 4 GiB or more, as no stream has.
    #[error("records of 4 GiB or more")]
    SymbolsSize,
    /// A room is too short for an index: how many entries the index has, and how many the room.
    #[error("index of {needed} entries in a room of {length}")]
    Room {
        needed: usize,
        length: usize,
    },
}

/// The result of a call that may fail with `PdbError`.
pub type Result<T> = std::result::Result<T, PdbError>;

/// Returns `Short` unless `needed` bytes follow the offset.
#[inline(always)]
pub(crate) fn require_bytes(bytes: &[u8], offset: usize, needed: usize) -> Result<()>
    ensures value { PdbReturns
        (λ u. u) result (outcome ((holds bytes.now offset needed, Short) ∷ []) tt) }
    ensures inside { IfOk result (λ u. offset + needed ≤ length bytes.now) }
{
    if bytes.len() < needed || offset > bytes.len() - needed {
        return Err(PdbError::Short {
            needed,
            length: bytes.len().saturating_sub(offset),
        });
    }
    Ok(())
}

/// Returns `RecordTruncated` unless the `needed` bytes of a record follow the offset.
#[inline(always)]
pub(crate) fn require_record(bytes: &[u8], offset: usize, needed: usize) -> Result<()>
    ensures value { PdbReturns
        (λ u. u) result (outcome ((holds bytes.now offset needed, RecordTruncated) ∷ []) tt) }
    ensures inside { IfOk result (λ u. offset + needed ≤ length bytes.now) }
{
    if bytes.len() < needed || offset > bytes.len() - needed {
        return Err(PdbError::RecordTruncated {
            offset,
            needed,
            length: bytes.len(),
        });
    }
    Ok(())
}
