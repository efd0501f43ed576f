//! The 32-bit words of ARM64 unwind records, and the fields that are packed into their bits; bit 0 is the lowest. A
//! caller gets them from `Arm64UnwindInfo`. Layouts:
//! [ARM64 exception handling](https://learn.microsoft.com/cpp/build/arm64-exception-handling).

ghost use Rattle.std.specs.Prelude.{◌≡◌, ◌*◌, ◌<◌, ◌==◌};
ghost use Rattle.std.proofs.Common.{arith};
ghost use Rattle.pe_unwind.specs.Arm64Words.{bits, has_handler, has_epilog, has_extension, epilog_scope_at};
ghost use Rattle.pe_unwind.specs.EntriesAfter.{epilog_scopes_after};

use pe_core::{TableEntries, TableEntry, read_u32};

/// The size of an epilog scope in bytes.
const SIZE_OF_EPILOG_SCOPE: usize = 4;

/// The number in `count` bits of a word, from bit `first` on.
pub(crate) fn bits(word: u32, first: u32, count: u32) -> u32
    requires inside { first < 32 }
    requires less { count < 32 }
    ensures { result ≡ bits word first count }
{
    (word >> first) % (1 << count)
}

/// The header of an ARM64 unwind record, its first word.
#[derive(Clone, Copy, Debug, PartialEq, Eq)]
pub struct Arm64UnwindHeader(pub u32);

impl Arm64UnwindHeader {
    /// The length of the function in bytes.
    pub fn function_length(&self) -> u32
        ensures { result ≡ 4 * bits (self.now).0 0 18 }
    {
        bits(self.0, 0, 18) * 4
    }

    /// The version of the record; only 0 is defined.
    pub fn version(&self) -> u32
        ensures { result ≡ bits (self.now).0 18 2 }
    {
        bits(self.0, 18, 2)
    }

    /// Whether the record ends in the RVA of an exception handler (X).
    pub fn exception_data_present(&self) -> bool
        ensures { result ≡ has_handler (self.now).0 }
    {
        bits(self.0, 20, 1) == 1
    }

    /// Whether this word describes the only epilog, so that no epilog scopes follow (E).
    pub fn epilog_in_header(&self) -> bool
        ensures { result ≡ has_epilog (self.now).0 }
    {
        bits(self.0, 21, 1) == 1
    }

    /// How many epilog scopes follow. If `epilog_in_header`, the index of the first unwind code of the epilog instead,
    /// in bytes from the first code.
    pub fn epilog_count(&self) -> u32
        ensures { result ≡ bits (self.now).0 22 5 }
    {
        bits(self.0, 22, 5)
    }

    /// How many words of unwind codes follow, four bytes each.
    pub fn code_words(&self) -> u32
        ensures { result ≡ bits (self.now).0 27 5 }
    {
        bits(self.0, 27, 5)
    }

    /// Whether an extension word follows, which has both counts instead of this word: both are 0 here.
    pub fn has_extension(&self) -> bool
        ensures { result ≡ has_extension (self.now).0 }
    {
        self.epilog_count() == 0 && self.code_words() == 0
    }
}

/// The extension word of an ARM64 unwind record: its second word, if both counts of the header are 0.
#[derive(Clone, Copy, Debug, PartialEq, Eq)]
pub struct Arm64UnwindExtension(pub u32);

impl Arm64UnwindExtension {
    /// How many epilog scopes follow.
    pub fn epilog_count(&self) -> u32
        ensures { result ≡ bits (self.now).0 0 16 }
    {
        bits(self.0, 0, 16)
    }

    /// How many words of unwind codes follow, four bytes each.
    pub fn code_words(&self) -> u32
        ensures { result ≡ bits (self.now).0 16 8 }
    {
        bits(self.0, 16, 8)
    }
}

/// An epilog scope: where an epilog starts, and which unwind codes describe it.
#[derive(Clone, Copy, Debug, PartialEq, Eq)]
pub struct Arm64EpilogScope(pub u32);

impl Arm64EpilogScope {
    /// The start of the epilog in bytes, from the start of the function. The field counts words of four bytes; this is
    /// already multiplied.
    pub fn start_offset_words(&self) -> u32
        ensures { result ≡ 4 * bits (self.now).0 0 18 }
    {
        4 * bits(self.0, 0, 18)
    }

    /// The four bits after the offset: reserved for ARM64, a condition in the records of ARM.
    pub fn condition(&self) -> u32
        ensures { result ≡ bits (self.now).0 18 4 }
    {
        bits(self.0, 18, 4)
    }

    /// The index of the epilog's first unwind code, in bytes from the first code. Pass it to
    /// `Arm64UnwindInfo::unwind_codes`.
    pub fn start_index(&self) -> u32
        ensures { result ≡ bits (self.now).0 22 10 }
    {
        bits(self.0, 22, 10)
    }
}

impl TableEntry for Arm64EpilogScope {
    ghost SIZE = { 4 };

    ghost entry_at = { epilog_scope_at };

    const SIZE: usize = SIZE_OF_EPILOG_SCOPE;

    const ITERATOR: &'static str = "Arm64EpilogScopeIterator";

    fn at(bytes: &[u8], offset: usize) -> Arm64EpilogScope {
        Arm64EpilogScope(read_u32(bytes, offset))
    }

    ghost has_bytes = { omega arith };

    ghost reads_after = { epilog_scopes_after };
}

/// The epilog scopes that are left, 4 bytes each. A truncated last scope is one item, `Short`.
pub type Arm64EpilogScopeIterator<'a> = TableEntries<'a, Arm64EpilogScope>;
