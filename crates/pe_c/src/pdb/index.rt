//! The calls of `index` in calls_pdb.

ghost use Rattle.calls_pdb.specs.PdbIndexes.{FindsSymbol, HandsOutIndex, ReadsSymbol, class_of, indexed};

use calls_base::ranges::Range;
use calls_base::results::{DONE, NOTHING, ROOM};
use calls_pdb::index::{class_of, found, put_index, read_symbol, symbol_at};
use calls_pdb::pdb::{hand_out_pdb, number_of_pdb};
use calls_pdb::symbols::PdbSymbol;

/// Makes an index of symbols by their RVAs at the start of `room`, sorted, and writes to `written` how many entries it has; the rest of the
/// room is unchanged. An entry is the RVA times 2^32, plus the offset of the record in the bytes. `kind` is 0 for the public functions
/// of the symbol stream, 1 for the procedures that have code of a module. `symbols` is a walk over records, as for
/// `pe_c_list_pdb_symbols`. Symbols without an RVA are left out, as are public symbols that are no functions. It takes n log n steps.
///
/// Errors: `PDB_SECTION_HEADERS`; `SHORT` where the range is not inside the bytes; `PDB_SYMBOLS_SIZE`; those of the first record that is
/// refused, as of `pe_c_list_pdb_symbols`; `ROOM`, and then `written` is how many entries the room has to have. An error changes nothing else.
#[unsafe(no_mangle)]
pub extern "C" fn pe_c_pdb_index(
    kind: u32,
    bytes: &[u8],
    symbols: &Range,
    sections: &[u8],
    room: &mut [u64],
    written: &mut u64,
) -> u32
    ensures { HandsOutIndex (indexed (class_of kind) bytes.now symbols.now sections.now) result room.old room.new written.old written.new }
{
    match put_index(class_of(kind), bytes, symbols, sections, room) {
        Ok(Ok(count)) => {
            *written = count as u64;
            DONE
        }
        Ok(Err(needed)) => {
            *written = needed as u64;
            ROOM
        }
        Err(error) => number_of_pdb(&error),
    }
}

/// Finds the symbol of an RVA by an index: of kind 0 the last public function that starts at or before it, which may be one that ends
/// before the RVA; of kind 1 the procedure whose code has the RVA. `NOTHING` without one. `bytes` and `sections` are those that
/// `pe_c_pdb_index` read, and `index` what it wrote. Of several at one RVA it is that of the last record. With other entries some
/// record of the bytes is found, an error, or `NOTHING`.
///
/// Errors: `PDB_SECTION_HEADERS`; those of the record that is found, as of `pe_c_list_pdb_symbols`.
#[unsafe(no_mangle)]
pub extern "C" fn pe_c_find_pdb_symbol(
    kind: u32,
    bytes: &[u8],
    sections: &[u8],
    index: &[u64],
    rva: u32,
    out: &mut PdbSymbol,
) -> u32
    ensures { FindsSymbol (class_of kind) bytes.now sections.now index.now rva result out.old out.new }
{
    match found(class_of(kind), bytes, index, rva) {
        Some(address) => hand_out_pdb(symbol_at(bytes, sections, address.record_offset), out),
        None => NOTHING,
    }
}

/// Finds the symbol of an RVA without an index, as `pe_c_find_pdb_symbol` by one that `pe_c_pdb_index` made of the same arguments. It reads
/// all records once: for a few RVAs that takes less than to make an index.
///
/// Errors: those of `pe_c_pdb_index` but `ROOM`; then those of the record that is found.
#[unsafe(no_mangle)]
pub extern "C" fn pe_c_read_pdb_symbol(
    kind: u32,
    bytes: &[u8],
    symbols: &Range,
    sections: &[u8],
    rva: u32,
    out: &mut PdbSymbol,
) -> u32
    ensures { ReadsSymbol (class_of kind) bytes.now (indexed (class_of kind) bytes.now symbols.now sections.now) sections.now
        rva result out.old out.new }
{
    match read_symbol(class_of(kind), bytes, symbols, sections, rva) {
        Ok(Some(address)) => hand_out_pdb(symbol_at(bytes, sections, address.record_offset), out),
        Ok(None) => NOTHING,
        Err(error) => number_of_pdb(&error),
    }
}
