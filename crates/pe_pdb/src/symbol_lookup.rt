//! An index of symbols by their RVAs, in a room that the caller has: the RVAs are sorted once, and each address is looked up by
//! binary search. What is found is the offset of a record, of which `SymbolRecord` reads the symbol.
//!
//! Procedures of several modules have one index where their symbols stand in one room, one module after the other.

ghost use Rattle.std.specs.Prelude.{◌≡◌, ◌+◌, ◌≤◌, ℕ, List, Ok, length};
ghost use Rattle.std.specs.List.Sorted.{IsNonDecreasing, IsPermutation};
ghost use Rattle.pe_pdb.specs.Lookups.{digits};
ghost use Rattle.pe_pdb.specs.Refusals.{PdbReturns};
ghost use Rattle.pe_pdb.specs.SymbolEntries.{addresses, count_of};
ghost use Rattle.pe_pdb.specs.Symbols.{symbol_at};
ghost use Rattle.pe_pdb.specs.SymbolIndexes.{Covering, Indexes, Nearest, PutsIndex, PutsSorted, code_size, if_reaches, in_room, symbol_address};

use crate::counted_entries::CountedEntries;
use crate::error::{PdbError, Result};
use crate::procedure::code_size_of;
use crate::sections::SectionHeaders;
use crate::symbol::SymbolRecord;
use crate::symbol_entries::{SymbolClass, UNIT, put_addresses};
use crate::symbol_index::SymbolIndex;

/// An entry of an index.
#[repr(C)]
#[derive(Clone, Copy)]
pub struct SymbolAddress {
    /// The RVA of the symbol.
    pub rva: u32,
    /// The offset of its record.
    pub record_offset: u32,
}

/// How many bytes of code the procedure has whose record is at an offset. 0 where no such record is there.
fn code_size(bytes: &[u8], offset: usize) -> u32
    ensures { result ≡ code_size (symbol_at bytes.now offset) }
{
    match SymbolRecord::parse(bytes, offset) {
        Ok(record) => code_size_of(&record),
        Err(_) => 0,
    }
}

impl<'r> SymbolIndex<'r> {
    /// How many entries an index has: as many as a room for it has to have. The records are those from an offset on. Errors, in
    /// order: `SymbolsSize`; those of `SymbolRecord::parse`, of the first record that is refused.
    pub fn count(
        class: SymbolClass,
        bytes: &[u8],
        start: usize,
        sections: &SectionHeaders<'_>,
    ) -> Result<usize>
        ensures { PdbReturns (λ n. n) result
            (count_of (addresses class bytes.now start sections.now.bytes.now)) }
    {
        put_addresses(class, bytes, start, sections, &mut [])
    }

    /// These entries, sorted.
    fn sorted(room: &'r mut [u64]) -> SymbolIndex<'r>
        ensures { IsPermutation room.old result.addresses.now }
    {
        room.sort_unstable();
        SymbolIndex { addresses: room }
    }

    /// The index of the symbols of a class, of the records from an offset on. What is in the room after the call is left open.
    /// Errors, in order: those of `count`; `Room` if the room has fewer entries than the index.
    pub fn new(
        class: SymbolClass,
        bytes: &[u8],
        start: usize,
        sections: &SectionHeaders<'_>,
        room: &'r mut [u64],
    ) -> Result<SymbolIndex<'r>>
        ensures { Indexes (in_room (length room.old) (addresses class bytes.now start sections.now.bytes.now)) result }
    {
        let count = put_addresses(class, bytes, start, sections, room)?;
        if room.len() < count {
            return Err(PdbError::Room {
                needed: count,
                length: room.len(),
            });
        }
        Ok(SymbolIndex::sorted(&mut room[..count]))
    }

    /// The last symbol that starts at or before an RVA; of several at one RVA that of the last record. `None` if all start after
    /// it.
    pub fn nearest(&self, rva: u32) -> Option<SymbolAddress>
        ensures { (xs : List ℕ) → IsPermutation xs self.now.addresses.now → Nearest xs rva result }
    {
        nearest_address(self.addresses, rva)
    }

    /// The procedure whose code has an RVA: the nearest one, if it reaches there. The bytes are those of which the index was
    /// made. `None` where no code of a procedure is, as in functions without debug information.
    pub fn covering(&self, bytes: &[u8], rva: u32) -> Option<SymbolAddress>
        ensures { (xs : List ℕ) → IsPermutation xs self.now.addresses.now → Covering xs bytes.now rva result }
    {
        covering_address(self.addresses, bytes, rva)
    }
}

/// Writes the entries of an index, sorted, to the start of a room, and returns how many there are; the rest of the room is unchanged. `Err`
/// of that number where the room has fewer; then nothing changes. An entry is an RVA, and below that, 32 bits, the offset of the
/// record that has it. Errors, which change nothing: those of `SymbolIndex::count`.
pub fn put_symbol_index(
    class: SymbolClass,
    bytes: &[u8],
    start: usize,
    sections: &SectionHeaders<'_>,
    room: &mut [u64],
) -> Result<std::result::Result<usize, usize>>
    ensures { PutsIndex (addresses class bytes.now start sections.now.bytes.now) room.old room.new result }
{
    let count = SymbolIndex::count(class, bytes, start, sections)?;
    if room.len() < count {
        return Ok(Err(count));
    }
    put_sorted(class, bytes, start, sections, room.split_at_mut(count).0);
    Ok(Ok(count))
}

/// Writes them to a room of as many entries.
fn put_sorted(
    class: SymbolClass,
    bytes: &[u8],
    start: usize,
    sections: &SectionHeaders<'_>,
    room: &mut [u64],
)
    requires { count_of (addresses class bytes.now start sections.now.bytes.now) ≡ Ok (length room.old) }
    ensures { PutsSorted (addresses class bytes.now start sections.now.bytes.now) room.old room.new }
{
    if let Ok(_) = put_addresses(class, bytes, start, sections, room) {
        room.sort_unstable();
    }
}

/// What `nearest_address` finds. It reads at most as many entries as their number has binary digits, and two; `entries` counts these reads.
#[inline(always)]
pub fn search_symbols(entries: &mut CountedEntries<'_, u64>, rva: u32) -> Option<SymbolAddress>
    ensures found { IsNonDecreasing entries.old.entries.now → (xs : List ℕ) → IsPermutation xs entries.old.entries.now → Nearest xs rva result }
    ensures cost { entries.new.reads ≤ entries.old.reads + digits (length entries.old.entries.now) + 2 }
{
    let after = entries.count_up_to(u64::from(rva));
    if after == 0 {
        return None;
    }
    Some(symbol_address(entries.get(after - 1)))
}

/// The symbol of an entry.
#[inline(always)]
pub(crate) fn symbol_address(address: u64) -> SymbolAddress
    ensures { result ≡ symbol_address address }
{
    SymbolAddress {
        rva: (address / UNIT) as u32,
        record_offset: (address % UNIT) as u32,
    }
}

/// What `SymbolIndex::nearest` finds in the entries of an index. Where entries do not ascend, which those of an index do, what is found
/// is left open.
pub fn nearest_address(entries: &[u64], rva: u32) -> Option<SymbolAddress>
    ensures { IsNonDecreasing entries.now → (xs : List ℕ) → IsPermutation xs entries.now → Nearest xs rva result }
{
    search_symbols(&mut CountedEntries::new(entries), rva)
}

/// What `SymbolIndex::covering` finds in the entries of an index of procedures.
pub fn covering_address(entries: &[u64], bytes: &[u8], rva: u32) -> Option<SymbolAddress>
    ensures { IsNonDecreasing entries.now → (xs : List ℕ) → IsPermutation xs entries.now → Covering xs bytes.now rva result }
{
    if_reaches(bytes, rva, nearest_address(entries, rva))
}

/// A procedure that is the nearest one, if its code has the RVA. The bytes are those of its module.
#[inline(always)]
pub fn if_reaches(bytes: &[u8], rva: u32, nearest: Option<SymbolAddress>) -> Option<SymbolAddress>
    ensures { result ≡ if_reaches bytes.now rva nearest }
{
    let found = nearest?;
    if rva.saturating_sub(found.rva) < code_size(bytes, found.record_offset as usize) {
        return Some(found);
    }
    None
}
