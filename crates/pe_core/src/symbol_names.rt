//! The names of all symbols of a table at once. Each long name is an offset in the string table, and a hostile object may
//! let thousands of them lead into one long string: to read each by itself would take quadratic time.

ghost use Rattle.std.specs.Prelude.{◌≡◌, ◌<◌, map, IfErr, IfOk};
ghost use Rattle.std.specs.Option.{option_map};
ghost use Rattle.pe_core.specs.Refusals.{IfMemory, ReturnsAs, ReturnsUnlessMemory};
ghost use Rattle.pe_core.specs.SectionIndex.{offset_or_end};
ghost use Rattle.pe_core.specs.Symbols.{or_no_text, row_count, symbol_in, symbol_names};
ghost use Rattle.pe_core.specs.SymbolSteps.{AreStringOffsets, name_by_text, named_at};

use crate::bytes::read_u32;
use crate::error::{Error, Reason, Result};
use crate::many_texts::texts_at;
use crate::strtab::{SIZE_FIELD, Strtab};
use crate::symbol::{SIZE_OF_SYMBOL, Symbol, SymbolTable, inline_name};
use std::alloc::{AllocError, Allocator};

/// The offset of the symbol's name in the string table. No byte is there if the symbol has its name in itself, or if the
/// offset is inside the size field.
fn string_offset(symbol: &Symbol) -> usize
    ensures { result ≡ offset_or_end (named_at symbol.now) }
{
    let offset = read_u32(&symbol.name, 4) as usize;
    if symbol.name[0] == 0 && SIZE_FIELD <= offset {
        offset
    } else {
        usize::MAX
    }
}

/// The offsets of the names of all symbols in the string table, one for each symbol.
#[tactic(auto, using(crate::proofs::SymbolNames::offsets_read))]
fn string_offsets<A: Allocator>(
    alloc: A,
    bytes: &[u8],
) -> std::result::Result<Vec<usize, A>, AllocError>
    ensures { IfOk result (λ v. AreStringOffsets bytes.now v.items) }
{
    let mut offsets = Vec::new(alloc);
    let mut row = 0;
    while row < bytes.len() / SIZE_OF_SYMBOL {
        let symbol = Symbol::at(bytes, SIZE_OF_SYMBOL * row);
        offsets.push(string_offset(&symbol))?;
        row += 1 + usize::from(symbol.number_of_aux_symbols);
    }
    Ok(offsets)
}

/// The name of the symbol in an entry, whose name in the string table is this text if it has its name there. Error:
/// `StringTable`.
#[tactic(auto, unfolding(crate::specs::Symbols::symbol))]
fn name_in<'a>(bytes: &'a [u8], row: usize, text: Option<&'a str>) -> Result<&'a str>
    requires { row < row_count bytes.now }
    ensures { ReturnsAs (λ s. s.now) result (or_no_text (name_by_text
        (symbol_in bytes.entry.now row) (option_map (λ s. s.now) text.entry))) }
{
    let offset = SIZE_OF_SYMBOL * row;
    let name = &bytes[offset..offset + 8];
    let found = if name[0] == 0 {
        text
    } else {
        inline_name(name)
    };
    found.ok_or(Error::Malformed(Reason::StringTable(read_u32(name, 4))))
}

/// The names of all symbols, whose names have these offsets in the string table.
#[tactic(auto, using(crate::proofs::SymbolNames::names_read))]
fn names_at<'a, A: Allocator + Copy + Drop>(
    alloc: A,
    bytes: &'a [u8],
    strings: &Strtab<'a>,
    offsets: &[usize],
) -> Result<Vec<&'a str, A>>
    requires { AreStringOffsets bytes.now offsets.now }
    ensures { ReturnsUnlessMemory (λ v. map (λ s. s.now) v.items) result
        (symbol_names bytes.entry.now strings.now.bytes.now) }
{
    // All strings at once: many of them may lie in one long one.
    let texts = texts_at(alloc, strings.bytes, offsets)?;
    let mut names = Vec::with_capacity(alloc, offsets.len())?;
    let mut row = 0;
    for i in 0..offsets.len() {
        let symbol = Symbol::at(bytes, SIZE_OF_SYMBOL * row);
        names.push(name_in(bytes, row, texts[i])?)?;
        row += 1 + usize::from(symbol.number_of_aux_symbols);
    }
    Ok(names)
}

impl<'a> SymbolTable<'a> {
    /// The names of all symbols, in the order in which `iter` returns them: of each what `Symbol::name` returns. Takes
    /// about as long as it takes to read both tables, and to sort the offsets of long names that overlap. Error, of each
    /// symbol in turn: `StringTable`, as of `Symbol::name`. `Memory` is possible at any point, if there is a symbol: without one no
    /// memory is asked for.
    #[tactic(auto, using(crate::proofs::SymbolNames::no_names, crate::proofs::NoMemory::asked))]
    pub fn names<A: Allocator + Copy + Drop>(
        &self,
        alloc: A,
        strings: &Strtab<'a>,
    ) -> Result<Vec<&'a str, A>>
        ensures names { ReturnsUnlessMemory (λ v. map (λ s. s.now) v.items) result
            (symbol_names self.now.bytes.now strings.now.bytes.now) }
        ensures memory { IfErr result (λ error. IfMemory error (0 < row_count self.now.bytes.now)) }
    {
        if self.bytes.len() < SIZE_OF_SYMBOL {
            return Ok(Vec::new(alloc));
        }
        let offsets = string_offsets(alloc, self.bytes)?;
        names_at(alloc, self.bytes, strings, &offsets)
    }
}
