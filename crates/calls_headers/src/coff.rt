//! COFF objects, the output of a compiler, and the COFF symbols that images of mingw-w64 and Go have too. An object starts
//! with the COFF header; the section headers follow it. The header says where the symbol table is: entries of 18 bytes, each
//! a symbol or an auxiliary record of the symbol before. The string table with the longer names follows it.
//! https://learn.microsoft.com/windows/win32/debug/pe-format#coff-symbol-table
//!
//! A linker or a symbol dumper starts with the header: of an object by `pe_c_coff`, of an image by `pe_c_headers`. Sections,
//! symbols and strings are a call each, so that one damaged table does not cost the others.

ghost use Rattle.std.specs.Prelude.{◌≡◌, ◌+◌, ◌*◌, ◌≤◌, ◌<◌, ◌^◌, IfOk, IfSome, Ok, length, nat_lt};
ghost use Rattle.std.specs.List.{list_all};
ghost use Rattle.pe_core.specs.Refusals.{ReturnsAs, answer_of};
ghost use Rattle.pe_core.specs.Symbols.{symbol_in, symbol_name};
ghost use Rattle.calls_headers.specs.Coff.{coff_header_of, coff_strings_at, name_range, name_range_by, IsNameOf, object_at, symbol_at, symbol_name_at, symbol_with, symbols_after, symbols_at, StepsNamedSymbols, named_after, named_at, named_by};
ghost use Rattle.calls_base.specs.Ranges.{bytes_at};
ghost use Rattle.calls_base.specs.HandsOut.{result_number};
ghost use Rattle.calls_base.specs.Lists.{HandsOutList, Numbered, by_number};

use crate::headers::{CoffFields, coff_fields};
use calls_base::lists::{Steps, hand_out_list};
use calls_base::ranges::{NO_BYTES, Range, slice_of};
use calls_base::results::{DONE, NOTHING, number_of};
use calls_base::text_runs::{Run, TextCosts, Texts, end_of_next, first_zero};
use pe_core::{CoffHeader, Error, Reason, Result, SIZE_OF_SYMBOL, Strtab, read_u32};

/// The size of the size of a string table, which is at its start.
const SIZE_OF_STRINGS_SIZE: u32 = 4;

/// The size of the name in a symbol in bytes.
const SIZE_OF_NAME: usize = 8;

/// A COFF symbol, `IMAGE_SYMBOL` of winnt.h, with what its entry says of others.
#[repr(C)]
#[derive(Clone, Copy)]
pub struct Symbol {
    /// Its auxiliary records, 18 bytes each, up to the end of the table.
    pub auxiliary: Range,
    /// The index of its entry; auxiliary records count.
    pub index: u64,
    /// The name, padded with zeros; or four zeros, and the offset of a longer name in the string table, 4 bytes. It is taken for the
    /// latter where it starts with a zero.
    pub name: [u8; 8],
    /// Its meaning depends on the storage class, for instance an offset in the section.
    pub value: u32,
    /// The offset of the name in the string table, from its size field; 0 where the name is in `name`.
    pub string_offset: u32,
    /// The number of the section, from 1. 0, -1 and -2 say that there is none (`IMAGE_SYM_UNDEFINED`, `_ABSOLUTE`,
    /// `_DEBUG`).
    pub section_number: i16,
    /// `IMAGE_SYM_TYPE_*` and `IMAGE_SYM_DTYPE_*` of winnt.h.
    pub typ: u16,
    /// `IMAGE_SYM_CLASS_*` of winnt.h.
    pub storage_class: u8,
    /// How many auxiliary records follow.
    pub number_of_aux_symbols: u8,
    /// 0.
    pub spare: u16,
}

/// A walk over symbols, which skips auxiliary records.
#[repr(C)]
#[derive(Clone, Copy)]
pub struct SymbolWalk {
    /// The symbol table, entries of 18 bytes.
    pub table: Range,
    /// The index of the next symbol's entry.
    pub next: u64,
}

pub fn object_at(bytes: &[u8]) -> Result<CoffFields>
    ensures { answer_of result ≡ object_at bytes.now }
{
    Ok(coff_fields(&CoffHeader::parse(bytes, 0)?))
}

fn coff_header_of(coff: &CoffFields) -> CoffHeader
    ensures { result ≡ coff_header_of coff.now }
{
    CoffHeader {
        machine: coff.machine,
        number_of_sections: coff.number_of_sections,
        time_date_stamp: coff.time_date_stamp,
        pointer_to_symbol_table: coff.pointer_to_symbol_table,
        number_of_symbol_table: coff.number_of_symbol_table,
        size_of_optional_header: coff.size_of_optional_header,
        characteristics: coff.characteristics,
    }
}

/// A walk over the symbols of a header, if it has any.
pub fn symbols_at(bytes: &[u8], coff: &CoffFields) -> Result<Option<SymbolWalk>>
    ensures { answer_of result ≡ symbols_at bytes.now coff.now }
{
    match coff_header_of(coff).symbols(bytes)? {
        Some(table) => Ok(Some(SymbolWalk {
            table: Range {
                offset: u64::from(coff.pointer_to_symbol_table),
                length: table.bytes.len() as u64,
            },
            next: 0,
        })),
        None => Ok(None),
    }
}

/// The range of the string table after them, if there is one.
pub fn coff_strings_at(bytes: &[u8], coff: &CoffFields) -> Result<Option<Range>>
    ensures { answer_of result ≡ coff_strings_at bytes.now coff.now }
{
    match coff_header_of(coff).strings(bytes)? {
        Some(table) => Ok(Some(Range {
            offset: u64::from(coff.pointer_to_symbol_table)
                + SIZE_OF_SYMBOL as u64 * u64::from(coff.number_of_symbol_table),
            length: table.bytes.len() as u64,
        })),
        None => Ok(None),
    }
}

/// The symbol in an entry of a table that has so many entries.
#[inline(always)]
pub fn symbol_with(table: &Range, rows: u64, index: u64, symbol: &pe_core::Symbol) -> Symbol
    requires inside { index < rows }
    requires small { table.now.offset + 18 * rows ≤ 2 ^ 63 }
    ensures { result ≡ symbol_with table.now rows index symbol.now }
{
    let auxiliary = u64::from(symbol.number_of_aux_symbols).min(rows - (index + 1));
    let string_offset = if symbol.name[0] == 0 {
        read_u32(&symbol.name, 4)
    } else {
        0
    };
    Symbol {
        auxiliary: Range {
            offset: table.offset + SIZE_OF_SYMBOL as u64 * (index + 1),
            length: SIZE_OF_SYMBOL as u64 * auxiliary,
        },
        index,
        name: symbol.name,
        value: symbol.value,
        string_offset,
        section_number: symbol.section_number,
        typ: symbol.typ,
        storage_class: symbol.storage_class,
        number_of_aux_symbols: symbol.number_of_aux_symbols,
        spare: 0,
    }
}

/// The symbol of a table with an index, if the table has it.
pub fn symbol_at(bytes: &[u8], table: &Range, index: u64) -> Result<Option<Symbol>>
    ensures symbol { answer_of result ≡ symbol_at bytes.now table.now index }
    ensures small { IfOk result (λ o. IfSome o (λ s. index < 2 ^ 62)) }
{
    let entries = slice_of(bytes, table)?;
    let rows = entries.len() / SIZE_OF_SYMBOL;
    if rows as u64 <= index {
        return Ok(None);
    }
    let symbol = pe_core::Symbol::parse(entries, SIZE_OF_SYMBOL * index as usize)?;
    Ok(Some(symbol_with(table, rows as u64, index, &symbol)))
}

pub fn next_symbol(bytes: &[u8], walk: &mut SymbolWalk) -> Result<Option<Symbol>>
    ensures symbol { answer_of result ≡ symbol_at bytes.now walk.old.table walk.old.next }
    ensures walk { walk.new
        ≡ symbols_after walk.old (symbol_at bytes.now walk.old.table walk.old.next) }
{
    let SymbolWalk { table, next } = *walk;
    match symbol_at(bytes, &table, next) {
        Ok(Some(symbol)) => {
            walk.next = next + 1 + u64::from(symbol.number_of_aux_symbols);
            Ok(Some(symbol))
        }
        Ok(None) => Ok(None),
        Err(error) => {
            walk.table = NO_BYTES;
            Err(error)
        }
    }
}

/// The range of the name of the symbol in an entry.
#[inline(always)]
fn name_range(
    table: &Range,
    strings: &Range,
    index: u64,
    symbol: &pe_core::Symbol,
    name: &str,
) -> Range
    requires inside { table.now.offset + 18 * index ≤ 2 ^ 63 }
    requires small { strings.now.offset ≤ 2 ^ 63 }
    ensures { result ≡ name_range table.now strings.now index symbol.now name.now }
{
    let offset = if symbol.name[0] == 0 {
        strings.offset + u64::from(read_u32(&symbol.name, 4))
    } else {
        table.offset + SIZE_OF_SYMBOL as u64 * index
    };
    Range {
        offset,
        length: name.len() as u64,
    }
}

/// The name of a symbol by texts of its string table.
#[inline(always)]
#[tactic(auto, unfolding(pe_core::specs::Symbols::symbol_name))]
fn name_by<'a>(symbol: &'a pe_core::Symbol, texts: Texts<'a>) -> Result<&'a str>
    ensures { ReturnsAs (λ s. s.now) result (symbol_name symbol.entry.now texts.entry.bytes.now) }
{
    if symbol.name[0] != 0 {
        return symbol.name(&Strtab { bytes: texts.bytes });
    }
    let offset = read_u32(&symbol.name, 4);
    let name = if offset < SIZE_OF_STRINGS_SIZE {
        None
    } else {
        texts.at(offset as usize)
    };
    name.ok_or(Error::Malformed(Reason::StringTable(offset)))
}

/// The range of the name of the symbol that is in an entry, by texts of the string table at a range.
#[inline(always)]
pub fn name_range_by(
    table: &Range,
    strings: &Range,
    index: u64,
    symbol: &pe_core::Symbol,
    texts: Texts<'_>,
) -> Result<Option<Range>>
    requires inside { table.now.offset + 18 * index ≤ 2 ^ 63 }
    requires small { strings.now.offset ≤ 2 ^ 63 }
    ensures { answer_of result ≡ name_range_by table.now strings.now index symbol.now
        texts.entry.bytes.now }
{
    let name = name_by(symbol, texts)?;
    Ok(Some(name_range(table, strings, index, symbol, name)))
}

/// Whether all bytes are ASCII.
#[inline(always)]
fn is_ascii(bytes: &[u8]) -> bool
    ensures { result ≡ list_all (λ c. nat_lt c 128) bytes.now }
{
    bytes.iter().all(|byte| *byte < 128)
}

/// The length of the name in the 8 bytes of an entry, if they are ASCII: as nearly all are, and such a name needs no test of UTF-8.
#[inline(always)]
#[tactic(auto, using(crate::proofs::SymbolTexts::ascii_to_zero, crate::proofs::SymbolTexts::ascii_alone))]
fn ascii_length(name: &[u8]) -> Option<usize>
    ensures { IfSome result (IsNameOf name.now) }
{
    if !is_ascii(name) {
        return None;
    }
    match first_zero(name) {
        Some(length) => Some(length),
        None => Some(name.len()),
    }
}

/// The range of the name in an entry, if its bytes are ASCII.
#[inline(always)]
#[tactic(auto, unfolding(pe_core::specs::Symbols::symbol))]
pub fn ascii_range(entries: &[u8], table: &Range, index: u64) -> Option<Range>
    requires entry { 18 * index + 18 ≤ length entries.now }
    requires inside { table.now.offset + 18 * index ≤ 2 ^ 63 }
    ensures offset { IfSome result (λ r. r.offset ≡ table.now.offset + 18 * index) }
    ensures length { IfSome result (λ r. IsNameOf (symbol_in entries.now index).name r.length) }
{
    let at = SIZE_OF_SYMBOL * index as usize;
    let length = ascii_length(&entries[at..at + SIZE_OF_NAME])?;
    Some(Range {
        offset: table.offset + at as u64,
        length: length as u64,
    })
}

/// The range of the name in an entry, whatever it is. Out of line: few names are not ASCII.
#[inline(never)]
pub fn any_range(
    entries: &[u8],
    table: &Range,
    strings: &Range,
    index: u64,
    texts: Texts<'_>,
) -> Result<Option<Range>>
    requires entry { 18 * index + 18 ≤ length entries.now }
    requires inside { table.now.offset + 18 * index ≤ 2 ^ 63 }
    requires small { strings.now.offset ≤ 2 ^ 63 }
    ensures { answer_of result ≡ name_range_by table.now strings.now index (symbol_in entries.now index)
        texts.entry.bytes.now }
{
    let symbol = pe_core::Symbol::parse(entries, SIZE_OF_SYMBOL * index as usize)?;
    name_range_by(table, strings, index, &symbol, texts)
}

/// The range of the name of the symbol in an entry, by texts of the string table at a range.
pub fn symbol_name_by(
    bytes: &[u8],
    table: &Range,
    strings: &Range,
    index: u64,
    texts: Texts<'_>,
) -> Result<Option<Range>>
    requires { bytes_at bytes.now strings.now ≡ Ok texts.bytes.now }
    ensures { answer_of result ≡ symbol_name_at bytes.now table.now strings.now index }
{
    let entries = slice_of(bytes, table)?;
    if (entries.len() / SIZE_OF_SYMBOL) as u64 <= index {
        return Ok(None);
    }
    let symbol = pe_core::Symbol::parse(entries, SIZE_OF_SYMBOL * index as usize)?;
    name_range_by(table, strings, index, &symbol, texts)
}

/// The same, read by itself.
pub fn symbol_name_at(
    bytes: &[u8],
    table: &Range,
    strings: &Range,
    index: u64,
) -> Result<Option<Range>>
    ensures { answer_of result ≡ symbol_name_at bytes.now table.now strings.now index }
{
    let texts = Texts::alone(slice_of(bytes, strings)?);
    symbol_name_by(bytes, table, strings, index, texts)
}

/// Whether the names of the symbols in the next entries, so many at most, have more bytes than twice the string table, each read by
/// itself: many of them share a string.
pub fn strings_cost_much(bytes: &[u8], walk: &SymbolWalk, strings: &[u8], most: usize) -> bool {
    let Ok(entries) = slice_of(bytes, &walk.table) else {
        return false;
    };
    let mut costs = TextCosts::of(strings);
    for i in walk.next as usize..end_of_next(walk.next, most, entries.len() / SIZE_OF_SYMBOL) {
        let name = SIZE_OF_SYMBOL * i;
        if read_u32(entries, name) == 0 {
            let offset = read_u32(entries, name + 4) as usize;
            if costs.are_over(strings, Some(offset)) {
                return true;
            }
        }
    }
    false
}

/// Writes where in the string table the names of the symbols in the next entries start to a room, as starts, of as many entries as
/// it has room for, and returns how many they are.
pub fn put_string_offsets(bytes: &[u8], walk: &SymbolWalk, room: &mut [Run]) -> usize
    ensures { result ≤ length room.new }
{
    let mut count = 0;
    let Ok(entries) = slice_of(bytes, &walk.table) else {
        return count;
    };
    for i in walk.next as usize..end_of_next(
        walk.next,
        room.len(),
        entries.len() / SIZE_OF_SYMBOL,
    ) {
        if count == room.len() {
            break;
        }
        // An auxiliary record is taken for a symbol, which costs a run that is not asked for.
        let name = SIZE_OF_SYMBOL * i;
        if read_u32(entries, name) == 0 {
            room[count] = Run::at(read_u32(entries, name + 4) as usize);
            count += 1;
        }
    }
    count
}

/// A COFF symbol with its name.
#[repr(C)]
#[derive(Clone, Copy)]
pub struct NamedSymbol {
    pub symbol: Symbol,
    /// UTF-8, without its final zero. Empty after an error.
    pub name: Range,
    /// What `pe_c_symbol_name` returns: 0, or the number of an error of the name alone.
    pub name_result: u32,
    /// 0.
    pub spare: u32,
}

/// A walk over symbols with their names.
#[repr(C)]
#[derive(Clone, Copy)]
pub struct NamedSymbolWalk {
    /// What `pe_c_coff_symbols` returns.
    pub symbols: SymbolWalk,
    /// What `pe_c_coff_strings` returns.
    pub strings: Range,
}

/// A symbol with what a call for its name returns.
#[inline(always)]
fn named_by(symbol: Symbol, given: Result<Option<Range>>) -> NamedSymbol
    ensures { result ≡ named_by symbol (answer_of given) }
{
    let (name, name_result) = match given {
        Ok(Some(name)) => (name, DONE),
        Ok(None) => (NO_BYTES, NOTHING),
        Err(error) => (NO_BYTES, number_of(&error)),
    };
    NamedSymbol {
        symbol,
        name,
        name_result,
        spare: 0,
    }
}

/// What a step returns, by what is read at the walk, which moves past it.
#[inline(always)]
fn next_named(
    walk: &mut SymbolWalk,
    given: Result<Option<NamedSymbol>>,
) -> std::result::Result<Option<NamedSymbol>, u32>
    requires { IfOk given (λ o. IfSome o (λ x. walk.old.next < 2 ^ 62)) }
    ensures value { result ≡ by_number result_number (answer_of given) }
    ensures walk { walk.new ≡ named_after walk.old (answer_of given) }
{
    match given {
        Ok(Some(found)) => {
            walk.next = walk.next + 1 + u64::from(found.symbol.number_of_aux_symbols);
            Ok(Some(found))
        }
        Ok(None) => Ok(None),
        Err(error) => {
            walk.table = NO_BYTES;
            Err(number_of(&error))
        }
    }
}

/// Steps over symbols whose names are read by themselves.
#[derive(Clone, Copy)]
pub struct Alone<'a> {
    pub bytes: &'a [u8],
    pub strings: Range,
}

impl<'a> Alone<'a> {
    #[tactic(auto, unfolding(crate::specs::Coff::named_at))]
    fn named_at(&self, walk: &SymbolWalk) -> Result<Option<NamedSymbol>>
        ensures named { answer_of result
            ≡ named_at self.now.bytes.now walk.now.table self.now.strings walk.now.next }
        ensures small { IfOk result (λ o. IfSome o (λ x. walk.now.next < 2 ^ 62)) }
    {
        match symbol_at(self.bytes, &walk.table, walk.next)? {
            Some(symbol) => {
                let name = symbol_name_at(self.bytes, &walk.table, &self.strings, walk.next);
                Ok(Some(named_by(symbol, name)))
            }
            None => Ok(None),
        }
    }
}

impl<'a> Steps<SymbolWalk, NamedSymbol> for Alone<'a> {
    ghost steps = { λ s. Numbered result_number (StepsNamedSymbols s.bytes.now s.strings) };

    fn step(&self, walk: &mut SymbolWalk) -> std::result::Result<Option<NamedSymbol>, u32> {
        let given = self.named_at(walk);
        next_named(walk, given)
    }
}

/// Steps over symbols whose names are read together.
#[derive(Clone, Copy)]
pub struct Together<'a> {
    pub bytes: &'a [u8],
    pub strings: Range,
    pub texts: Texts<'a>,
    ghost same: { bytes_at bytes.now strings ≡ Ok texts.bytes.now },
}

impl<'a> Together<'a> {
    /// The range of the name of the symbol in an entry of a table.
    #[inline(always)]
    fn name_of(
        &self,
        entries: &[u8],
        table: &Range,
        index: u64,
        symbol: &pe_core::Symbol,
    ) -> Result<Option<Range>>
        requires entry { 18 * index + 18 ≤ length entries.now }
        requires inside { table.now.offset + 18 * index ≤ 2 ^ 63 }
        requires symbol { symbol.now ≡ symbol_in entries.now index }
        ensures { answer_of result ≡ name_range_by table.now self.now.strings index symbol.now
            self.now.texts.bytes.now }
    {
        if symbol.name[0] == 0 {
            return name_range_by(table, &self.strings, index, symbol, self.texts);
        }
        match ascii_range(entries, table, index) {
            Some(range) => Ok(Some(range)),
            None => any_range(entries, table, &self.strings, index, self.texts),
        }
    }

    #[inline(always)]
    #[tactic(auto, unfolding(crate::specs::Coff::named_at))]
    fn named_at(&self, walk: &SymbolWalk) -> Result<Option<NamedSymbol>>
        ensures named { answer_of result
            ≡ named_at self.now.bytes.now walk.now.table self.now.strings walk.now.next }
        ensures small { IfOk result (λ o. IfSome o (λ x. walk.now.next < 2 ^ 62)) }
    {
        let SymbolWalk { table, next } = *walk;
        let entries = slice_of(self.bytes, &table)?;
        let rows = (entries.len() / SIZE_OF_SYMBOL) as u64;
        if rows <= next {
            return Ok(None);
        }
        // The entry is read once.
        let symbol = pe_core::Symbol::parse(entries, SIZE_OF_SYMBOL * next as usize)?;
        let name = self.name_of(entries, &table, next, &symbol);
        Ok(Some(named_by(symbol_with(&table, rows, next, &symbol), name)))
    }
}

impl<'a> Steps<SymbolWalk, NamedSymbol> for Together<'a> {
    ghost steps = { λ s. Numbered result_number (StepsNamedSymbols s.bytes.now s.strings) };

    fn step(&self, walk: &mut SymbolWalk) -> std::result::Result<Option<NamedSymbol>, u32> {
        let given = self.named_at(walk);
        next_named(walk, given)
    }
}

/// Lists symbols whose names are read by themselves. Out of line: it is for a string table that is not inside the bytes.
#[cold]
#[inline(never)]
pub fn list_alone(
    names: &Alone<'_>,
    walk: &mut SymbolWalk,
    entries: &mut [NamedSymbol],
    written: &mut u64,
) -> u32
    ensures { HandsOutList (Numbered result_number
        (StepsNamedSymbols names.now.bytes.now names.now.strings))
        result walk.old walk.new entries.old entries.new written.old written.new }
{
    hand_out_list(names, walk, entries, written)
}

/// The texts of a string table, those of the next symbols read together, if they cost much else. Out of line, so that the list has
/// all registers.
#[inline(never)]
pub fn texts_of<'a>(
    bytes: &[u8],
    walk: &SymbolWalk,
    strings: &'a [u8],
    runs: &'a mut [Run],
) -> Texts<'a>
    ensures { result.bytes.now ≡ strings.entry.now }
{
    if !strings_cost_much(bytes, walk, strings, runs.len()) {
        return Texts::alone(strings);
    }
    let count = put_string_offsets(bytes, walk, runs);
    Texts::together(strings, &mut runs[..count])
}
