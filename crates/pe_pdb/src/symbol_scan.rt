//! The symbol of one RVA without an index: the records are read once, and the best so far is kept. Of a few RVAs that takes less than to
//! sort all symbols.

ghost use Rattle.std.specs.Prelude.{◌≡◌, ◌+◌, ◌<◌, ◌≤◌, ◌^◌, false, length, IfSome, Ok};
ghost use Rattle.std.specs.Option.{option_map, option_to_list};
ghost use Rattle.pe_pdb.specs.Frames.{address_before, symbol_before};
ghost use Rattle.pe_pdb.specs.Refusals.{PdbReturns};
ghost use Rattle.pe_core.specs.Bytes.{le};
ghost use Rattle.pe_pdb.specs.Scans.{Finds, HasSameEntries, found_in, is_of, symbol_in};
ghost use Rattle.pe_pdb.specs.SymbolEntries.{address, addresses};
ghost use Rattle.pe_pdb.specs.Symbols.{symbol_at};

use crate::error::{PdbError, Result};
use crate::procedure::is_procedure;
use crate::public::S_PUB32;
use crate::sections::SectionHeaders;
use crate::symbol::{SIZE_OF_PREFIX, SymbolRecord};
use crate::symbol_entries::{SymbolClass, UNIT, rva_by};
use crate::symbol_lookup::{SymbolAddress, symbol_address};
use pe_core::read_u16;

/// The entry of the record at an offset, if it starts at or before an RVA, and not before what was found; else that.
fn later_address(found: Option<u64>, start: Option<u32>, offset: usize, rva: u32) -> Option<u64>
    requires { offset < 2 ^ 32 }
    ensures { Finds (address_before rva) (option_to_list (option_map (λ x. address x offset) start)) found result }
{
    let Some(start) = start else {
        return found;
    };
    if rva < start {
        return found;
    }
    let entry = u64::from(start) * UNIT + offset as u64;
    match found {
        Some(last) if entry < last => found,
        _ => Some(entry),
    }
}

/// Whether records of a kind may be symbols of a class.
#[inline(always)]
fn is_of(class: SymbolClass, kind: u16) -> bool
    ensures { result ≡ is_of class kind }
{
    match class {
        SymbolClass::PublicFunctions => kind == S_PUB32,
        SymbolClass::Procedures => is_procedure(kind),
    }
}

/// Where a record ends that is not of the class, and after which four bytes more follow. `None` of others.
#[inline(always)]
#[tactic(auto, unfolding(crate::specs::Symbols::symbol_at))]
fn end_of_other(class: SymbolClass, bytes: &[u8], offset: usize, last: usize) -> Option<usize>
    requires last { last + 4 ≤ length bytes.now }
    requires offset { offset ≤ last }
    ensures whole { IfSome result (λ end. symbol_at bytes.now offset ≡ Ok (symbol_in bytes.now offset)) }
    ensures other { IfSome result (λ end. is_of class (symbol_in bytes.now offset).kind ≡ false) }
    ensures end { IfSome result (λ end. (end ≡ offset + 2 + le bytes.now offset 2) × (2 ≤ le bytes.now offset 2)) }
    ensures inside { IfSome result (λ end. (offset < end) × (end ≤ last)) }
{
    let size = read_u16(bytes, offset);
    let kind = read_u16(bytes, offset + 2);
    if size < 2 || is_of(class, kind) {
        return None;
    }
    let end = offset + 2 + usize::from(size);
    if end > last {
        return None;
    }
    Some(end)
}

/// The next record, from one on, that may be of a class, is refused, or is one of the last: those before it are read up to their kinds.
#[inline(always)]
fn skip_others(class: SymbolClass, bytes: &[u8], start: usize) -> usize
    ensures same { HasSameEntries class bytes.now start result }
    ensures after { start ≤ result }
{
    let mut next = start;
    if bytes.len() < SIZE_OF_PREFIX || next > bytes.len() - SIZE_OF_PREFIX {
        return next;
    }
    let last = bytes.len() - SIZE_OF_PREFIX;
    while let Some(end) = end_of_other(class, bytes, next, last) {
        next = end;
    }
    next
}

/// The last symbol of a class that starts at or before an RVA, of the records from an offset on: what `SymbolIndex::nearest` finds. Of a
/// procedure `if_reaches` says whether its code has the RVA. Errors: those of `SymbolIndex::count`.
pub fn find_symbol(
    class: SymbolClass,
    bytes: &[u8],
    start: usize,
    sections: &SectionHeaders<'_>,
    rva: u32,
) -> Result<Option<SymbolAddress>>
    ensures { PdbReturns (λ o. o) result
        (found_in (λ xs. symbol_before xs rva) (addresses class bytes.now start sections.now.bytes.now)) }
{
    if bytes.len() as u64 >= UNIT {
        return Err(PdbError::SymbolsSize);
    }
    let mut found = None;
    let mut next = start;
    while next < bytes.len() {
        let record = SymbolRecord::parse(bytes, next)?;
        found = later_address(found, rva_by(class, sections, &record), next, rva);
        next = skip_others(class, bytes, record.end());
    }
    match found {
        Some(address) => Ok(Some(symbol_address(address))),
        None => Ok(None),
    }
}
