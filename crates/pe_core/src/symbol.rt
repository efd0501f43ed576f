//! COFF symbols: the symbol table of an object or image
//! ([layout](https://learn.microsoft.com/windows/win32/debug/pe-format#coff-symbol-table)). A symbol may be followed by
//! auxiliary records of the same size, which are not symbols. A caller gets the table from `CoffHeader::symbols`, and
//! names by `Symbol::name`, or all of them by `SymbolTable::names`.

ghost use Rattle.std.specs.Prelude.{◌≡◌, ◌+◌, ◌-◌, ◌*◌, ◌/◌, ◌≤◌, length};
ghost use Rattle.std.specs.Iterator.{at_most};
ghost use Rattle.std.specs.Option.{option_map};
ghost use Rattle.pe_core.specs.Bytes.{le, record_at};
ghost use Rattle.pe_core.specs.Refusals.{Returns, ReturnsAs};
ghost use Rattle.pe_core.specs.Symbols.{inline_name};

use crate::bytes::{read_u8, read_u16, read_u32, require_bytes, slice_at};
use crate::error::{Error, Reason, Result};
use crate::header::CoffHeader;
use crate::strtab::Strtab;
use crate::text::{before_zero, text_of};

/// The size of an entry of the symbol table in bytes, symbol or auxiliary record.
pub const SIZE_OF_SYMBOL: usize = 18;

/// A COFF symbol (`IMAGE_SYMBOL`), 18 bytes.
#[derive(Clone, Copy, Debug, PartialEq)]
pub struct Symbol {
    /// The name, padded with zeros; or four zeros, and the offset of a longer name in the string table, 4 bytes.
    /// `name()` returns it as text.
    pub name: [u8; 8],
    /// The value. Its meaning depends on the storage class, for instance an offset in the section.
    pub value: u32,
    /// The number of the section, from 1. 0, -1 and -2 say that there is none (`IMAGE_SYM_UNDEFINED`, `_ABSOLUTE`,
    /// `_DEBUG`).
    pub section_number: i16,
    /// The type, `IMAGE_SYM_TYPE_*` and `IMAGE_SYM_DTYPE_*` of winnt.h.
    pub typ: u16,
    /// The storage class, `IMAGE_SYM_CLASS_*` of winnt.h.
    pub storage_class: u8,
    /// The number of auxiliary records that follow the symbol.
    pub number_of_aux_symbols: u8,
}

/// The name in the 8 bytes themselves. `None` if they start with a zero, or are not UTF-8 up to the first zero.
pub(crate) fn inline_name(name: &[u8]) -> Option<&str>
    requires { length name.now ≡ 8 }
    ensures { option_map (λ s. s.now) result ≡ inline_name name.now }
{
    if name[0] == 0 {
        None
    } else {
        text_of(before_zero(name))
    }
}

impl Symbol {
    ghost use Rattle.pe_core.specs.Symbols.{symbol, symbol_name};

    /// The symbol at `offset`, whose 18 bytes the caller knows to lie in `bytes`.
    #[tactic(auto, unfolding(crate::specs::Symbols::symbol))]
    pub(crate) fn at(bytes: &[u8], offset: usize) -> Symbol
        requires { offset + 18 ≤ length bytes.now }
        ensures { result ≡ symbol bytes.now offset }
    {
        let mut name = [0; 8];
        name.copy_from_slice(&bytes[offset..offset + 8]);
        Symbol {
            name,
            value: read_u32(bytes, offset + 8),
            section_number: read_u16(bytes, offset + 12).cast_signed(),
            typ: read_u16(bytes, offset + 14),
            storage_class: read_u8(bytes, offset + 16),
            number_of_aux_symbols: read_u8(bytes, offset + 17),
        }
    }

    /// The symbol at `offset`. Error: `Short`.
    pub fn parse(bytes: &[u8], offset: usize) -> Result<Symbol>
        ensures { Returns result (record_at bytes.now offset 18 (symbol bytes.now offset)) }
    {
        require_bytes(bytes, offset, SIZE_OF_SYMBOL)?;
        Ok(Symbol::at(bytes, offset))
    }

    /// The name: that in the 8 bytes themselves, or, if they start with a zero, the string of `strings` at the offset
    /// in the last 4 of them, which is read to its end. `SymbolTable::names` returns the names of all symbols. Error:
    /// `StringTable` if no string is there, if it is not NUL-terminated, or if the name is not UTF-8.
    #[tactic(auto, unfolding(crate::specs::Symbols::symbol_name))]
    pub fn name<'a>(&'a self, strings: &Strtab<'a>) -> Result<&'a str>
        ensures { ReturnsAs (λ s. s.now) result (symbol_name self.entry.now strings.now.bytes.now) }
    {
        let offset = read_u32(&self.name, 4);
        let name = if self.name[0] == 0 {
            strings.string_at(offset as usize)
        } else {
            inline_name(&self.name)
        };
        name.ok_or(Error::Malformed(Reason::StringTable(offset)))
    }
}

/// The COFF symbol table of an object or image.
#[derive(Clone, Copy, Debug, PartialEq)]
pub struct SymbolTable<'a> {
    /// The entries of 18 bytes, a range of the bytes that were passed.
    pub bytes: &'a [u8],
}

impl<'a> SymbolTable<'a> {
    ghost use Rattle.pe_core.specs.Symbols.{symbol_bytes, row_at};

    /// The symbols, each as its index in the table, the name in its 8 bytes (if it is there), and the symbol. Auxiliary
    /// records are skipped, so the indices skip them too.
    pub fn iter(&self) -> SymbolIterator<'a>
        ensures table { symbol_bytes result ≡ self.now.bytes.now }
        ensures first { row_at result ≡ 0 }
    {
        SymbolIterator {
            bytes: self.bytes,
            row: 0,
        }
    }
}

/// An iterator over the symbols that are left of a table.
#[derive(Clone, Copy, Debug)]
pub struct SymbolIterator<'a> {
    bytes: &'a [u8],
    row: usize,
}

impl<'a> Iterator for SymbolIterator<'a> {
    ghost use Rattle.pe_core.specs.Symbols.{symbol_bytes, row_at, row_count, ReturnsSymbol};

    type Item = (usize, Option<&'a str>, Symbol);

    ghost next_gives = { λ s r t. ReturnsSymbol (symbol_bytes s) (row_at s) r (row_at t)
        × (symbol_bytes t ≡ symbol_bytes s) };

    ghost remaining = { λ s. at_most (row_count (symbol_bytes s) - row_at s) };

    #[tactic(auto, unfolding(crate::specs::Symbols::symbol))]
    fn next(&mut self) -> Option<(usize, Option<&'a str>, Symbol)> {
        let bytes = self.bytes;
        let row = self.row;
        if row >= bytes.len() / SIZE_OF_SYMBOL {
            return None;
        }
        let offset = SIZE_OF_SYMBOL * row;
        let symbol = Symbol::at(bytes, offset);
        let name = inline_name(&bytes[offset..offset + 8]);
        // Skips the auxiliary records.
        self.row = row + 1 + usize::from(symbol.number_of_aux_symbols);
        Some((row, name, symbol))
    }
}

impl CoffHeader {
    ghost use Rattle.pe_core.specs.Symbols.{symbols_of, symbol_table_view};

    /// The COFF symbol table. `None` if the header's pointer to it is 0. Error: `Short` if it is truncated. The entries
    /// are one read, so a pointer past the end of the bytes is `Short` even with 0 entries.
    #[tactic(auto, unfolding(crate::specs::Symbols::symbols_of))]
    pub fn symbols<'a>(&self, bytes: &'a [u8]) -> Result<Option<SymbolTable<'a>>>
        ensures { ReturnsAs symbol_table_view result (symbols_of bytes.entry.now self.now) }
    {
        let offset = self.pointer_to_symbol_table as usize;
        if offset == 0 {
            return Ok(None);
        }
        let size = SIZE_OF_SYMBOL * self.number_of_symbol_table as usize;
        let bytes = slice_at(bytes, offset, size)?;
        Ok(Some(SymbolTable { bytes }))
    }
}
