//! The errors of the readers and writers: an `Error` is `Short`, `BadMagic`, `Memory`, or `Malformed` with a `Reason`.
//! The variants of `Reason`, their names and their texts are written by `tools/make_errors` from `tools/errors.toml`,
//! as are all other lists of errors.

ghost use Rattle.std.specs.Prelude.{◌≡◌};
ghost use Rattle.pe_core.specs.declared.error.Error.TheVariants.{Memory};

use std::alloc::{AllocError, AllocFailed};
use std::fmt;

/// What is wrong with a value in the bytes, or with an argument.
///
/// Offsets, RVAs and magic numbers are as the file has them; sizes and counts are in bytes or entries.
#[derive(Clone, Copy, PartialEq)]
pub enum Reason {
    /// The DOS header's pointer to the PE header, which is below 64.
    HeaderPointer(u32),
    /// The RVA of the name of a DLL, or of the hint before the name of an imported function.
    ImportName(u32),
    /// An offset in the string table, from its size field: the one that a symbol has, that of the first byte of a
    /// string that is not UTF-8, or the end of a truncated table.
    StringTable(u32),
    /// The revision of a certificate.
    CertificateRevision(u16),
    /// The type of a certificate.
    CertificateType(u16),
    /// The length that a certificate states.
    CertificateSize(u32),
    /// The file offset at which the certificate table ends, or the greatest u64 if that is greater.
    CertificateTable(u64),
    /// An RVA that maps to no file offset: of a directory, a table, a record, the name of a library or a hint.
    Unmapped(u64),
    /// The file offset at which the debug directory ends, or the greatest usize if that is greater.
    DebugBounds(u64),
    /// The size of a debug record.
    DebugSize(u32),
    /// The size of a debug record: its entry's for CodeView and POGO, the length that the record states for Repro.
    DebugData(u32),
    /// The size of a POGO record.
    PogoSize(u32),
    /// How many bytes a POGO entry needs, from its start to the end of its padding, and how many are left there. If its
    /// name is not NUL-terminated, those of the shortest longer name are needed.
    PogoName { needed: usize, length: usize },
    /// The size of the exception directory.
    ExceptionSize(u32),
    /// The file offset of the exception directory, which is not a multiple of four.
    ExceptionOffset(u64),
    /// The file offset at which the exception directory ends.
    ExceptionBounds(u64),
    /// The index of a function.
    FunctionIndex(usize),
    /// The RVA in a link from one function entry to another.
    FunctionLink(u32),
    /// The links that were followed until a saved one came again, or one more than the entries; for a plan, the records
    /// that were followed until a saved unwind RVA came again, or the links of a record whose links never end.
    FunctionCycle(usize),
    /// The version of an unwind record.
    UnwindVersion(u8),
    /// The byte of an unwind code that holds its operation and its operand, four bits each.
    UnwindCode(u8),
    /// The version of an ARM64 unwind record.
    Arm64Version(u32),
    /// The length of an ARM64 code stream in bytes, and the offset at which reading was to start.
    Arm64Stream { length: usize, start: usize },
    /// The offset of a truncated ARM64 code in its stream.
    Arm64Cut(usize),
    /// The file offset at which resource data ends, past the bytes that are to hold it, or the greatest u64 if that is
    /// greater. Where the data is too short for the first directory or its entries: the end of these entries.
    ResourceBounds(u64),
    /// The offset of a directory on the ring, or of the saved one, from the start of the resource directory.
    ResourceCycle(u32),
    /// The offset of a version string, from the start of the version information, or of the bytes that were passed; 0
    /// for an iterator's.
    ResourceString(u32),
    /// The stripped size of a TE header.
    TeSize(u16),
    /// The image has no optional header.
    NoOptionalHeader,
    /// The file alignment.
    WriteAlignment(usize),
    /// The file offset of the COFF symbol table.
    WriteSymbols(u32),
    /// The indices of two sections.
    WriteOverlap(usize, usize),
    /// The index of a section.
    WriteSection(usize),
    /// The end of what was to be written, or the greatest u64 if that is greater, and the length of the buffer in
    /// bytes.
    WriteFit { end: u64, length: usize },
    /// The number of imports of an image, or the greatest usize if there are more, and the limit of the call.
    ImportsLimit { count: usize, limit: u32 },
}

impl Reason {
    ghost use Rattle.std.specs.Prelude.{◌≡◌};
    ghost use Rattle.pe_core.specs.Names.{name_of};
    ghost use Rattle.pe_core.specs.Refusals.{kind_of_reason};

    /// The name of the variant, for instance `ExceptionSize`, for logs and bindings.
    pub fn name(&self) -> &'static str
        ensures { result.now ≡ name_of (kind_of_reason self.now) }
    {
        match self {
            Reason::HeaderPointer(..) => "HeaderPointer",
            Reason::ImportName(..) => "ImportName",
            Reason::StringTable(..) => "StringTable",
            Reason::CertificateRevision(..) => "CertificateRevision",
            Reason::CertificateType(..) => "CertificateType",
            Reason::CertificateSize(..) => "CertificateSize",
            Reason::CertificateTable(..) => "CertificateTable",
            Reason::Unmapped(..) => "Unmapped",
            Reason::DebugBounds(..) => "DebugBounds",
            Reason::DebugSize(..) => "DebugSize",
            Reason::DebugData(..) => "DebugData",
            Reason::PogoSize(..) => "PogoSize",
            Reason::PogoName { .. } => "PogoName",
            Reason::ExceptionSize(..) => "ExceptionSize",
            Reason::ExceptionOffset(..) => "ExceptionOffset",
            Reason::ExceptionBounds(..) => "ExceptionBounds",
            Reason::FunctionIndex(..) => "FunctionIndex",
            Reason::FunctionLink(..) => "FunctionLink",
            Reason::FunctionCycle(..) => "FunctionCycle",
            Reason::UnwindVersion(..) => "UnwindVersion",
            Reason::UnwindCode(..) => "UnwindCode",
            Reason::Arm64Version(..) => "Arm64Version",
            Reason::Arm64Stream { .. } => "Arm64Stream",
            Reason::Arm64Cut(..) => "Arm64Cut",
            Reason::ResourceBounds(..) => "ResourceBounds",
            Reason::ResourceCycle(..) => "ResourceCycle",
            Reason::ResourceString(..) => "ResourceString",
            Reason::TeSize(..) => "TeSize",
            Reason::NoOptionalHeader => "NoOptionalHeader",
            Reason::WriteAlignment(..) => "WriteAlignment",
            Reason::WriteSymbols(..) => "WriteSymbols",
            Reason::WriteOverlap(..) => "WriteOverlap",
            Reason::WriteSection(..) => "WriteSection",
            Reason::WriteFit { .. } => "WriteFit",
            Reason::ImportsLimit { .. } => "ImportsLimit",
        }
    }
}

impl Reason {
    /// The number of the reason. `None` if it has none, or two.
    fn number(&self) -> Option<u64> {
        Some(match *self {
            Reason::HeaderPointer(n)
            | Reason::ImportName(n)
            | Reason::StringTable(n)
            | Reason::CertificateSize(n)
            | Reason::DebugSize(n)
            | Reason::DebugData(n)
            | Reason::PogoSize(n)
            | Reason::ExceptionSize(n)
            | Reason::FunctionLink(n)
            | Reason::Arm64Version(n)
            | Reason::ResourceCycle(n)
            | Reason::ResourceString(n)
            | Reason::WriteSymbols(n) => u64::from(n),
            Reason::CertificateRevision(n) | Reason::CertificateType(n) | Reason::TeSize(n) =>
                u64::from(n),
            Reason::CertificateTable(n)
            | Reason::Unmapped(n)
            | Reason::DebugBounds(n)
            | Reason::ExceptionOffset(n)
            | Reason::ExceptionBounds(n)
            | Reason::ResourceBounds(n) => n,
            Reason::FunctionIndex(n)
            | Reason::FunctionCycle(n)
            | Reason::Arm64Cut(n)
            | Reason::WriteAlignment(n)
            | Reason::WriteSection(n) => n as u64,
            Reason::UnwindVersion(n) | Reason::UnwindCode(n) => u64::from(n),
            _ => return None,
        })
    }

    /// The numbers of the reason, as its text has them. 0 in place of one that it does not have.
    fn numbers(&self) -> [u64; 2] {
        match *self {
            Reason::PogoName { needed, length } => [needed as u64, length as u64],
            Reason::Arm64Stream { length, start } => [length as u64, start as u64],
            Reason::WriteOverlap(first, second) => [first as u64, second as u64],
            Reason::WriteFit { end, length } => [end, length as u64],
            Reason::ImportsLimit { count, limit } => [count as u64, limit as u64],
            _ => [self.number().unwrap_or(0), 0],
        }
    }

    /// The text of the reason, for `write_numbers`.
    fn text(&self) -> &'static str {
        match self {
            Reason::HeaderPointer(..) =>
                "PE header offset 0x{} lies inside the DOS header's 64 bytes",
            Reason::ImportName(..) => "import name at RVA 0x{} is not NUL-terminated or not UTF-8",
            Reason::StringTable(..) =>
                "string not NUL-terminated, not UTF-8 or truncated (at offset 0x{} of the string table, unless it is an inline name)",
            Reason::CertificateRevision(..) => "invalid certificate revision 0x{}",
            Reason::CertificateType(..) => "invalid certificate type 0x{}",
            Reason::CertificateSize(..) => "certificate truncated: {} bytes needed",
            Reason::CertificateTable(..) =>
                "certificate table ends at file offset 0x{}, past the end of the file",
            Reason::Unmapped(..) =>
                "RVA 0x{} maps to no file offset: no section covers it, or the file alignment is not a power of two",
            Reason::DebugBounds(..) =>
                "debug directory ends at file offset 0x{}, past the end of the file",
            Reason::DebugSize(..) => "debug record of {} bytes is too small for its type",
            Reason::DebugData(..) => "debug record truncated: {} bytes needed",
            Reason::PogoSize(..) => "POGO record of {} bytes has no entries",
            Reason::PogoName { .. } =>
                "POGO entry truncated: {} bytes needed up to the end of its padded name, {} left",
            Reason::ExceptionSize(..) =>
                "exception directory size of {} bytes is not a multiple of the entry size",
            Reason::ExceptionOffset(..) =>
                "exception directory at file offset 0x{} is not aligned to 4 bytes",
            Reason::ExceptionBounds(..) =>
                "exception directory ends at file offset 0x{}, past the end of the file",
            Reason::FunctionIndex(..) => "function index {} is out of range",
            Reason::FunctionLink(..) => "link to RVA 0x{} leads to no function entry",
            Reason::FunctionCycle(..) =>
                "loop in unwind links or chained records, found after {} steps",
            Reason::UnwindVersion(..) => "unknown unwind record version {}",
            Reason::UnwindCode(..) => "invalid unwind code 0x{}",
            Reason::Arm64Version(..) => "unknown ARM64 unwind record version {}",
            Reason::Arm64Stream { .. } =>
                "no ARM64 unwind code stream in {} bytes from offset 0x{}",
            Reason::Arm64Cut(..) => "ARM64 unwind code truncated at offset 0x{} of its stream",
            Reason::ResourceBounds(..) =>
                "resource data ends at file offset 0x{}, past the bytes that hold it",
            Reason::ResourceCycle(..) =>
                "loop in the resource tree through the directory at offset 0x{}",
            Reason::ResourceString(..) =>
                "version string at offset 0x{}: value missing, or its length above 32,767",
            Reason::TeSize(..) =>
                "stripped size of {} bytes is smaller than the 40 bytes of a TE header",
            Reason::NoOptionalHeader => "image has no optional header",
            Reason::WriteAlignment(..) => "images with alignment 0x{} cannot be written",
            Reason::WriteSymbols(..) =>
                "images with COFF symbols cannot be written (symbol table at file offset 0x{})",
            Reason::WriteOverlap(..) => "sections {} and {} overlap in the file and are not equal",
            Reason::WriteSection(..) => "data of section {} is not in the source bytes",
            Reason::WriteFit { .. } => "write ends at offset 0x{}, past a buffer of {} bytes",
            Reason::ImportsLimit { .. } => "image has {} imports, more than the limit of {}",
        }
    }
}

// It shows what a derived one does, whose proof takes nearly three times as long.
impl fmt::Debug for Reason {
    fn fmt<W: fmt::Write>(&self, f: &mut fmt::Formatter<W>) -> fmt::Result {
        let name = self.name();
        if let Some(number) = self.number() {
            return f.debug_tuple(name).field(&number).finish();
        }
        let [first, second] = self.numbers();
        let (one, other) = match self {
            Reason::PogoName { .. } => ("needed", "length"),
            Reason::Arm64Stream { .. } => ("length", "start"),
            Reason::WriteFit { .. } => ("end", "length"),
            Reason::ImportsLimit { .. } => ("count", "limit"),
            Reason::WriteOverlap(..) => return f
                .debug_tuple(name)
                .field(&first)
                .field(&second)
                .finish(),
            _ => return f.write_str(name),
        };
        f.debug_struct(name)
            .field(one, &first)
            .field(other, &second)
            .finish()
    }
}

impl fmt::Display for Reason {
    fn fmt<W: fmt::Write>(&self, f: &mut fmt::Formatter<W>) -> fmt::Result {
        write_numbers(f, self.text(), &self.numbers())
    }
}

/// Writes a text with a number in place of each `{}`: after `0x` in hexadecimal digits, else in decimal ones. With a `write!` for
/// each reason the proof takes three times as long.
fn write_numbers<W: fmt::Write>(
    f: &mut fmt::Formatter<W>,
    text: &str,
    numbers: &[u64],
) -> fmt::Result {
    let mut rest = text;
    for number in numbers {
        if let Some((before, after)) = rest.split_once("{}") {
            let written = if before.ends_with("0x") {
                write!(f, "{before}{number:x}")
            } else {
                write!(f, "{before}{number}")
            };
            written?;
            rest = after;
        }
    }
    f.write_str(rest)
}

/// Why a call failed.
#[derive(Debug, Drop, thiserror::Error)]
pub enum Error {
    /// A value in the bytes, or an argument, is invalid; the reason says which.
    #[error("{0}")]
    Malformed(Reason),
    /// Invalid magic number: the number that the file has instead.
    #[error("invalid magic number {0:#x}")]
    BadMagic(u64),
    /// Truncated: `needed` bytes do not follow offset `at`, which counts from the start of the bytes that were passed.
    /// For an item of an iterator it counts from the start of the bytes that the iterator has left.
    #[error("truncated: {needed} bytes needed at offset {at:#x}")]
    Short { at: usize, needed: usize },
    /// Out of memory: an allocation failed.
    #[error("out of memory")]
    Memory(AllocError),
}

impl Error {
    ghost use Rattle.std.specs.Prelude.{◌≡◌};
    ghost use Rattle.pe_core.specs.Names.{name_of};
    ghost use Rattle.pe_core.specs.Refusals.{kind_of};

    /// The name of the error, for logs and bindings: `Short`, `BadMagic`, `Memory`, or the name of its reason, for
    /// instance `ExceptionSize`.
    pub fn name(&self) -> &'static str
        ensures { result.now ≡ name_of (kind_of self.now) }
    {
        match self {
            Error::Malformed(reason) => reason.name(),
            Error::BadMagic(_) => "BadMagic",
            Error::Short { .. } => "Short",
            Error::Memory(_) => "Memory",
        }
    }
}

// So that `?` returns an allocation failure as `Memory`.
impl From<AllocError> for Error {
    ghost from_gives = { λ _ e. e ≡ Memory record {} };

    fn from(error: AllocError) -> Error {
        Error::Memory(error)
    }
}

impl<T: Drop> From<AllocFailed<T>> for Error {
    ghost from_gives = { λ _ e. e ≡ Memory record {} };

    fn from(failed: AllocFailed<T>) -> Error {
        Error::Memory(AllocError::from(failed))
    }
}

/// The result of a call that may fail with `Error`.
pub type Result<T> = std::result::Result<T, Error>;
