//! An index of symbols by their RVAs, which a caller makes once in an array of its own: each RVA is looked up in it by halves, however
//! many symbols there are.

ghost use Rattle.std.specs.Prelude.{◌≡◌};
ghost use Rattle.pe_pdb.specs.Refusals.{PdbReturns};
ghost use Rattle.pe_pdb.specs.Scans.{found_in};
ghost use Rattle.pe_pdb.specs.SymbolIndexes.{PutsIndex};
ghost use Rattle.calls_pdb.specs.PdbIndexes.{FindsAddress, class_of, indexed, symbol_found, symbol_with, up_to};
ghost use Rattle.calls_pdb.specs.Pdbs.{pdb_answer};

use crate::pdb::part_of;
use crate::symbols::{PdbSymbol, symbol_reported};
use calls_base::ranges::Range;
use pe_pdb::{
    Result, SectionHeaders, SymbolAddress, SymbolClass, SymbolRecord, covering_address,
    find_symbol, if_reaches, nearest_address, put_symbol_index,
};

/// The class with a number: 0 is that of public functions, any other that of procedures.
pub fn class_of(number: u32) -> SymbolClass
    ensures { result ≡ class_of number }
{
    if number == 0 {
        SymbolClass::PublicFunctions
    } else {
        SymbolClass::Procedures
    }
}

/// The bytes up to the end of a range. `Short` where it is not inside them.
pub fn up_to<'a>(bytes: &'a [u8], range: &Range) -> Result<&'a [u8]>
    ensures { PdbReturns (λ s. s.now) result (up_to bytes.entry.now range.now) }
{
    let part = part_of(bytes, range)?;
    Ok(bytes.split_at(range.offset as usize + part.len()).0)
}

/// Makes the index of the symbols of a class in a range of the bytes at the start of a room, and returns how many entries it has.
pub fn put_index(
    class: SymbolClass,
    bytes: &[u8],
    symbols: &Range,
    sections: &[u8],
    room: &mut [u64],
) -> Result<std::result::Result<usize, usize>>
    ensures { PutsIndex (indexed class bytes.now symbols.now sections.now) room.old room.new result }
{
    let sections = SectionHeaders::parse(sections)?;
    let records = up_to(bytes, symbols)?;
    put_symbol_index(class, records, symbols.offset as usize, &sections, room)
}

/// What an index finds for an RVA.
pub fn found(class: SymbolClass, bytes: &[u8], index: &[u64], rva: u32) -> Option<SymbolAddress>
    ensures { FindsAddress class index.now bytes.now rva result }
{
    match class {
        SymbolClass::PublicFunctions => nearest_address(index, rva),
        SymbolClass::Procedures => covering_address(index, bytes, rva),
    }
}

/// The record at an offset as callers get it.
pub fn symbol_at(bytes: &[u8], sections: &[u8], offset: u32) -> Result<PdbSymbol>
    ensures { pdb_answer result ≡ symbol_found bytes.now sections.now offset }
{
    let sections = SectionHeaders::parse(sections)?;
    let record = SymbolRecord::parse(bytes, offset as usize)?;
    Ok(symbol_reported(u64::from(offset), &record, &sections))
}

/// The symbol of an RVA, of the records in a range of the bytes.
pub fn read_symbol(
    class: SymbolClass,
    bytes: &[u8],
    symbols: &Range,
    sections: &[u8],
    rva: u32,
) -> Result<Option<SymbolAddress>>
    ensures { PdbReturns (λ o. o) result
        (found_in (λ xs. symbol_with class xs bytes.now rva) (indexed class bytes.now symbols.now sections.now)) }
{
    let sections = SectionHeaders::parse(sections)?;
    let records = up_to(bytes, symbols)?;
    let nearest = find_symbol(class, records, symbols.offset as usize, &sections, rva)?;
    match class {
        SymbolClass::PublicFunctions => Ok(nearest),
        SymbolClass::Procedures => Ok(if_reaches(bytes, rva, nearest)),
    }
}
