//! The modules of a PDB ([layout](https://llvm.org/docs/PDB/DbiStream.html#module-info-substream)), the objects that were linked.
//! Each has a record of 64 bytes in the DBI stream, and two names after it; the next one starts at a multiple of four. A module
//! that has debug information has a stream of its own: a number of 4 bytes, its symbols, and its lines.

ghost use Rattle.std.specs.Prelude.{◌≡◌, ◌==◌, ◌+◌, ◌-◌, ◌≤◌, ◌<◌, ◌^◌, length, position, IfOk, IfSome};
ghost use Rattle.std.specs.Iterator.{at_most};
ghost use Rattle.pe_pdb.specs.Modules.{module_at, module_end, module_record, module_view, modules, modules_left, name_at, symbol_bytes_of};
ghost use Rattle.pe_pdb.specs.Refusals.{PdbReturns};
ghost use Rattle.pe_pdb.specs.Walks.{Takes};

use crate::error::{PdbError, Result, require_bytes};
use pe_core::{read_u16, read_u32};

/// The size of a record without its names in bytes.
const SIZE_OF_RECORD: usize = 64;

/// What the stream of a module starts with.
const SIGNATURE: u32 = 4;

/// Where the symbols of a module start in its stream, for `SymbolRecords` and for an index.
pub const FIRST_SYMBOL: usize = 4;

/// The record of a module, without its names. Sizes are in bytes.
#[repr(C)]
#[derive(Clone, Copy)]
pub struct ModuleRecord {
    /// The number of the section of its first code, from 1 on.
    pub section: u16,
    /// Where that is in the section.
    pub code_offset: u32,
    /// How many bytes that is.
    pub code_size: u32,
    /// Bit 0: written since the last link; bit 1: edit and continue.
    pub flags: u16,
    /// The stream of the module, or `NO_STREAM`.
    pub stream: u16,
    /// The size of its symbols in its stream, with the 4 bytes before them.
    pub symbols_size: u32,
    /// The size of the lines after them, as compilers before Visual C++ 7 wrote them.
    pub c11_size: u32,
    /// The size of the lines after those, as later ones do.
    pub c13_size: u32,
    /// The number of its source files.
    pub files: u16,
}

/// A module.
#[derive(Clone, Copy)]
pub struct Module<'a> {
    /// Where its record starts in the modules.
    pub offset: usize,
    pub header: ModuleRecord,
    /// Its name, without the final zero: the path of the object, or `* Linker *`.
    pub name: &'a [u8],
    /// The path of the library that it is from, or of the object.
    pub file: &'a [u8],
}

impl ModuleRecord {
    /// The record at an offset, whose 64 bytes the caller knows to be there.
    #[tactic(auto, unfolding(crate::specs::Modules::module_record))]
    fn at(bytes: &[u8], offset: usize) -> ModuleRecord
        requires { offset + 64 ≤ length bytes.now }
        ensures { result ≡ module_record bytes.now offset }
    {
        ModuleRecord {
            section: read_u16(bytes, offset + 4),
            code_offset: read_u32(bytes, offset + 8),
            code_size: read_u32(bytes, offset + 12),
            flags: read_u16(bytes, offset + 32),
            stream: read_u16(bytes, offset + 34),
            symbols_size: read_u32(bytes, offset + 36),
            c11_size: read_u32(bytes, offset + 40),
            c13_size: read_u32(bytes, offset + 44),
            files: read_u16(bytes, offset + 48),
        }
    }

    /// The symbols of the module, of the bytes of its stream; the first record is at `FIRST_SYMBOL`. No bytes where it has none.
    /// Errors, in order: `ModuleSymbols` if they pass the end of the stream; `Short` if they are fewer than four;
    /// `ModuleSignature`.
    #[tactic(auto, unfolding(crate::specs::Modules::symbol_bytes_of))]
    pub fn symbol_bytes<'s>(&self, stream: &'s [u8]) -> Result<&'s [u8]>
        ensures { PdbReturns (λ b. b.now) result (symbol_bytes_of self.now stream.entry.now) }
    {
        let size = self.symbols_size as usize;
        if stream.len() < size {
            return Err(PdbError::ModuleSymbols {
                size: self.symbols_size,
                length: stream.len(),
            });
        }
        if size == 0 {
            return Ok(&[]);
        }
        if size < FIRST_SYMBOL {
            return Err(PdbError::Short {
                needed: FIRST_SYMBOL,
                length: size,
            });
        }
        let signature = read_u32(stream, 0);
        if signature != SIGNATURE {
            return Err(PdbError::ModuleSignature(signature));
        }
        Ok(&stream[..size])
    }
}

/// The index of the first zero.
fn first_zero(bytes: &[u8]) -> Option<usize>
    ensures first { result ≡ position (λ c. c == 0) bytes.now }
    ensures inside { IfSome result (λ n. n < length bytes.now) }
{
    bytes.iter().position(|byte| *byte == 0)
}

/// The bytes from an offset up to the first zero. Error: `Name` if there is none.
pub(crate) fn name_at(bytes: &[u8], offset: usize) -> Result<&[u8]>
    requires { offset ≤ length bytes.now }
    ensures value { PdbReturns (λ b. b.now) result (name_at bytes.now offset) }
    ensures inside { IfOk result (λ name. offset + length name.now + 1 ≤ length bytes.now) }
{
    let rest = bytes.split_at(offset).1;
    match first_zero(rest) {
        Some(length) => Ok(&rest[..length]),
        None => Err(PdbError::Name(offset)),
    }
}

impl<'a> Module<'a> {
    /// The module whose record is at an offset. Errors, in order: `Short` if fewer than 64 bytes follow; `Name` if one of its
    /// names is not NUL-terminated.
    #[tactic(auto, unfolding(crate::specs::Modules::module_at))]
    pub fn parse(bytes: &'a [u8], offset: usize) -> Result<Module<'a>>
        ensures value { PdbReturns module_view result (module_at bytes.entry.now offset) }
        ensures inside { IfOk result (λ m.
            m.offset + 66 + length m.name.now + length m.file.now ≤ length bytes.entry.now) }
    {
        require_bytes(bytes, offset, SIZE_OF_RECORD)?;
        let name = name_at(bytes, offset + SIZE_OF_RECORD)?;
        let file = name_at(bytes, offset + SIZE_OF_RECORD + name.len() + 1)?;
        Ok(Module {
            offset,
            header: ModuleRecord::at(bytes, offset),
            name,
            file,
        })
    }

    /// Where the next one starts.
    pub fn end(&self) -> usize
        requires { self.now.offset + 70 + length self.now.name.now + length self.now.file.now < 2 ^ 64 }
        ensures { result ≡ module_end (module_view self.now) }
    {
        (self.offset + SIZE_OF_RECORD + self.name.len() + self.file.len() + 2).div_ceil(4) * 4
    }
}

/// The modules that are left, in the order of the DBI stream. It is over after an error.
#[derive(Clone, Copy)]
pub struct Modules<'a> {
    bytes: &'a [u8],
    next: usize,
}

impl<'a> Modules<'a> {
    /// The modules of `Dbi::modules`.
    pub fn new(bytes: &'a [u8]) -> Modules<'a>
        ensures { modules_left result ≡ modules bytes.entry.now 0 }
    {
        Modules { bytes, next: 0 }
    }
}

impl<'a> Iterator for Modules<'a> {
    type Item = Result<Module<'a>>;

    ghost next_gives = { λ s r t. Takes module_view (modules_left s) r (modules_left t) };

    ghost remaining = { λ s. at_most (length s.bytes.now - s.next) };

    fn next(&mut self) -> Option<Result<Module<'a>>> {
        if self.next >= self.bytes.len() {
            return None;
        }
        match Module::parse(self.bytes, self.next) {
            Ok(module) => {
                self.next = module.end();
                Some(Ok(module))
            }
            Err(error) => {
                self.next = self.bytes.len();
                Some(Err(error))
            }
        }
    }
}
