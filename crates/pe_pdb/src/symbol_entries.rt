//! The entries of an index of symbols: the RVA of each symbol of a class, with the offset of its record.

ghost use Rattle.std.specs.Prelude.{◌≡◌, ◌+◌, ◌<◌, ◌^◌, length};
ghost use Rattle.std.specs.Option.{option_map, option_to_list};
ghost use Rattle.pe_pdb.specs.SymbolEntries.{PutsAddresses, address, address_put, addresses, rva_by};
ghost use Rattle.pe_pdb.specs.Symbols.{symbol_view};

use crate::error::{PdbError, Result};
use crate::procedure::procedure_rva;
use crate::public::public_function_rva;
use crate::sections::SectionHeaders;
use crate::symbol::SymbolRecord;

/// How much an RVA counts in an entry: below it is the offset of the record.
pub(crate) const UNIT: u64 = 1 << 32;

/// Which symbols an index has.
#[derive(Clone, Copy)]
pub enum SymbolClass {
    /// Public functions, of the stream of symbols.
    PublicFunctions,
    /// Procedures that have code, of the stream of a module.
    Procedures,
}

/// The RVA of a symbol of a class. `None` of other records.
#[inline(always)]
pub(crate) fn rva_by(
    class: SymbolClass,
    sections: &SectionHeaders<'_>,
    record: &SymbolRecord<'_>,
) -> Option<u32>
    ensures { result ≡ rva_by class sections.now.bytes.now (symbol_view record.now) }
{
    match class {
        SymbolClass::PublicFunctions => public_function_rva(sections, record),
        SymbolClass::Procedures => procedure_rva(sections, record),
    }
}

/// Writes an entry, if there is one, after the `count` that there are, if the room has that many. Returns how many there are then.
fn put_address(room: &mut [u64], count: usize, rva: Option<u32>, offset: usize) -> usize
    requires count { count + 1 < 2 ^ 64 }
    requires offset { offset < 2 ^ 32 }
    ensures count { result ≡ count + length (option_to_list rva) }
    ensures room { room.new ≡ address_put room.old count (option_map (λ x. address x offset) rva) }
{
    let Some(rva) = rva else {
        return count;
    };
    if count < room.len() {
        room[count] = u64::from(rva) * UNIT + offset as u64;
    }
    count + 1
}

/// Writes the entries of the symbols of a class to a room, as many as it has place for, and returns how many there are. Errors, in
/// order: `SymbolsSize`; those of `SymbolRecord::parse`, of the first record that is refused.
pub(crate) fn put_addresses(
    class: SymbolClass,
    bytes: &[u8],
    start: usize,
    sections: &SectionHeaders<'_>,
    room: &mut [u64],
) -> Result<usize>
    ensures puts { PutsAddresses (addresses class bytes.now start sections.now.bytes.now) room.new result }
    ensures len { length room.new ≡ length room.old }
{
    if bytes.len() as u64 >= UNIT {
        return Err(PdbError::SymbolsSize);
    }
    let mut count = 0;
    let mut next = start;
    while next < bytes.len() {
        let record = SymbolRecord::parse(bytes, next)?;
        let rva = rva_by(class, sections, &record);
        count = put_address(room, count, rva, next);
        next = record.end();
    }
    Ok(count)
}
