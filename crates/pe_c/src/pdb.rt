//! Calls on PDB files, over calls_pdb.

ghost use Rattle.std.specs.Prelude.{Ok, length, ◌≡◌};
ghost use Rattle.std.specs.List.Sorted.{IsNonDecreasingBy};
ghost use Rattle.calls_pdb.specs.Pdbs.{HandsOutStarts, Matches, PdbHandsOut, PdbHandsOutIf, pdb_at, stream_at, stream_numbered, stream_range, pdb_number};
ghost use Rattle.calls_base.specs.WrittenFiles.{HandsOutFile};
ghost use Rattle.calls_base.specs.Lists.{HandsOutList, Numbered};
ghost use Rattle.calls_pdb.specs.PdbModules.{StepsModules, HandsOutRanges, module_rows};
ghost use Rattle.calls_pdb.specs.PdbSymbols.{StepsPdbSymbols};
ghost use Rattle.pe_pdb.specs.Omap.{moved_to, omap};
ghost use Rattle.calls_base.specs.HandsOut.{HandsOutIf};
ghost use Rattle.calls_base.specs.declared.results.TheConstants.{DONE, NOTHING};

pub mod index;
pub mod inlined;
pub mod lines;

use calls_base::lists::{Steps, hand_out_list};
use calls_base::ranges::Range;
use calls_base::results::{DONE, NOTHING, ROOM};
use calls_headers::debug::records::SymbolKey;
use calls_pdb::modules::{Modules, PdbModule, module_rows};
use calls_pdb::pdb::{
    Pdb, hand_out_pdb, hand_out_pdb_if, is_pdb_of, number_of_pdb, pdb_at, stream_at, stream_range,
};
use calls_pdb::symbols::{PdbSymbol, Symbols};
use pe_pdb::{ModuleRange, Msf, moved_to};

/// Reads what a PDB says of itself: the superblock, the head of the info stream, and of the DBI stream the header and the numbers of
/// streams. A DBI stream that is missing or damaged, as compilers' own PDBs have none, costs its own fields alone: `dbi_result` says
/// why.
///
/// Errors: `SHORT` where there are fewer than 56 bytes; `PDB20`, `PDB_PORTABLE`, `PDB_MAGIC`; `PDB_BLOCK_SIZE`; `PDB_FILE_SIZE`;
/// `PDB_BLOCK_MAP`, `PDB_BLOCK`, `PDB_DIRECTORY` of the directory; of the info stream those of `pe_c_pdb_stream`, `SHORT` where it has
/// fewer than 28 bytes, `PDB_INFO_VERSION`.
#[unsafe(no_mangle)]
pub extern "C" fn pe_c_pdb(bytes: &[u8], out: &mut Pdb) -> u32
    ensures { PdbHandsOut result out.old out.new (pdb_at bytes.now) }
{
    hand_out_pdb(pdb_at(bytes), out)
}

/// Writes to the start of `room` where the directory lists the blocks of each stream, `number_of_streams` numbers, by which
/// `pe_c_pdb_stream` opens a stream without reading the sizes of those before it; `written` is how many. The rest of the room is
/// unchanged.
///
/// Errors: those of the directory of `pe_c_pdb`; `ROOM`, and then `written` is how many numbers the room has to have.
#[unsafe(no_mangle)]
pub extern "C" fn pe_c_pdb_starts(bytes: &[u8], room: &mut [u64], written: &mut u64) -> u32
    ensures { HandsOutStarts result room.old room.new written.old written.new bytes.now }
{
    match Msf::parse(bytes) {
        Ok(msf) => match msf.put_starts(room) {
            Ok(count) => {
                *written = count as u64;
                DONE
            }
            Err(needed) => {
                *written = needed as u64;
                ROOM
            }
        },
        Err(error) => number_of_pdb(&error),
    }
}

/// Copies the stream with an index to the start of `room`, and writes its length to `written`. The rest of the room is unchanged. Where the
/// room is too small all of it is, and `written` has the length that is needed. `starts` is what `pe_c_pdb_starts` wrote, or has no
/// entries: then the sizes of the streams before this one are read. Another start gives other bytes of the file, or an error.
///
/// Errors: those of the directory of `pe_c_pdb`; `PDB_NO_STREAM`; `PDB_STREAM_SIZE`; `PDB_DIRECTORY`; `PDB_BLOCK`; `ROOM`. After an error
/// the room is unchanged, and after others than `ROOM` `written` too.
#[unsafe(no_mangle)]
#[tactic(auto, using(pe_pdb::proofs::StreamBytes::length_stream))]
pub extern "C" fn pe_c_pdb_stream(
    bytes: &[u8],
    starts: &[u64],
    index: u32,
    room: &mut [u8],
    written: &mut u64,
) -> u32
    ensures { HandsOutFile result written.old written.new room.old room.new
        (stream_numbered bytes.now starts.now index) }
{
    let stream = match stream_at(bytes, starts, index) {
        Ok(stream) => stream,
        Err(error) => return number_of_pdb(&error),
    };
    let length = stream.len();
    if length > room.len() {
        *written = length as u64;
        return ROOM;
    }
    match stream.read_at(0, room.split_at_mut(length).0) {
        Ok(()) => {
            *written = length as u64;
            DONE
        }
        Err(error) => number_of_pdb(&error),
    }
}

/// Returns the range of the file that has the bytes of the stream with an index in their order, so that no copy of them is needed.
/// `NOTHING` where its blocks do not follow one another, as they do in what most linkers write. `starts` is as for `pe_c_pdb_stream`. It
/// reads the directory alone, and no block of the stream.
///
/// Errors: those of `pe_c_pdb_stream` but `ROOM`.
#[unsafe(no_mangle)]
pub extern "C" fn pe_c_pdb_stream_range(
    bytes: &[u8],
    starts: &[u64],
    index: u32,
    out: &mut Range,
) -> u32
    ensures { PdbHandsOutIf result out.old out.new (stream_range bytes.now starts.now index) }
{
    hand_out_pdb_if(stream_range(bytes, starts, index), out)
}

/// Returns `DONE` where a PDB is that of an image: its GUID and the age of its DBI stream are those of the image's key. `NOTHING` where it
/// is another one. The age of the info stream is not asked: tools raise it that change the PDB alone.
///
/// Error: `dbi_result` of the PDB, where its DBI stream is refused.
#[unsafe(no_mangle)]
pub extern "C" fn pe_c_is_pdb_of(key: &SymbolKey, pdb: &Pdb) -> u32
    ensures { Matches key.now pdb.now result }
{
    if pdb.dbi_result != DONE {
        return pdb.dbi_result;
    }
    if is_pdb_of(key, pdb) { DONE } else { NOTHING }
}

/// Lists the modules of a PDB, and moves the walk past them. `bytes` are those of the DBI stream, stream 3, and the walk starts as
/// `modules` of `pe_c_pdb`.
///
/// Errors: `ROOM` where `entries` is empty; `SHORT` where the walk is not inside the bytes, or fewer than 64 follow; `PDB_NAME` where a
/// name is not NUL-terminated. After the others the walk is over.
#[unsafe(no_mangle)]
pub extern "C" fn pe_c_list_pdb_modules(
    bytes: &[u8],
    walk: &mut Range,
    entries: &mut [PdbModule],
    written: &mut u64,
) -> u32
    ensures { HandsOutList (Numbered pdb_number (StepsModules bytes.now))
        result walk.old walk.new entries.old entries.new written.old written.new }
{
    hand_out_list(&Modules { dbi: bytes }, walk, entries, written)
}

/// Lists the records of symbols, and moves the walk past them: those of the symbol stream, where the walk starts at offset 0 and has all
/// of its bytes, or of the stream of a module, where it starts as `symbols` of the module. Of a public symbol and a procedure it reads
/// the name and the place; of other records, such as those of variables and of the ends of scopes, no more than where they are.
/// `sections` are the bytes of the stream with the section headers. A record that is refused costs itself alone, by `result`: `NOTHING`
/// where it has no RVA, since it is another record or the image has no such section; `SHORT` where its content is truncated; `PDB_NAME`.
///
/// Errors: `ROOM` where `entries` is empty; `PDB_SECTION_HEADERS`; `SHORT` where the walk is not inside the bytes, or fewer than 4
/// follow; `PDB_RECORD_SIZE`; `PDB_RECORD_TRUNCATED`. After the others the walk is over.
#[unsafe(no_mangle)]
pub extern "C" fn pe_c_list_pdb_symbols(
    bytes: &[u8],
    sections: &[u8],
    walk: &mut Range,
    entries: &mut [PdbSymbol],
    written: &mut u64,
) -> u32
    ensures { HandsOutList (Numbered pdb_number (StepsPdbSymbols bytes.now sections.now))
        result walk.old walk.new entries.old entries.new written.old written.new }
{
    hand_out_list(&Symbols { bytes, sections }, walk, entries, written)
}

/// Writes to the start of `room` which RVAs are of which module: a range for each section contribution, in their order, of no RVAs where
/// it is in no section; `written` is how many. The rest of the room is unchanged. Ranges ascend and do not overlap in what linkers
/// write; where two have an RVA, the first counts. `bytes` are those of the DBI stream, stream 3, and `contributions` those of
/// `pe_c_pdb`.
///
/// Errors: `PDB_SECTION_HEADERS`; `SHORT` where the range is not inside the bytes, or has fewer than 4;
/// `PDB_CONTRIBUTIONS_VERSION`; `PDB_CONTRIBUTIONS_SIZE`; `ROOM`, and then `written` is how many entries the room has to have. An error
/// changes nothing else.
#[unsafe(no_mangle)]
pub extern "C" fn pe_c_pdb_module_ranges(
    bytes: &[u8],
    contributions: &Range,
    sections: &[u8],
    room: &mut [ModuleRange],
    written: &mut u64,
) -> u32
    ensures { HandsOutRanges (module_rows bytes.now contributions.now sections.now)
        result room.old room.new written.old written.new }
{
    match module_rows(bytes, contributions, sections) {
        Ok((sections, rows)) => match rows.put_ranges(&sections, room) {
            Ok(count) => {
                *written = count as u64;
                DONE
            }
            Err(needed) => {
                *written = needed as u64;
                ROOM
            }
        },
        Err(error) => number_of_pdb(&error),
    }
}

/// Returns where the code at an RVA is by an OMAP table, which is a stream of the PDB: by `omap_to_source` where an RVA of the image was
/// when it was linked, by `omap_from_source` where one of then is now. Calls on symbols then take the stream
/// `original_section_headers`, and RVAs of then. `NOTHING` where the code is nowhere. It is looked up by halves: where rows do not ascend,
/// some row or none is taken. It never returns an error.
#[unsafe(no_mangle)]
pub extern "C" fn pe_c_pdb_moved_rva(bytes: &[u8], rva: u32, out: &mut u32) -> u32
    ensures moved { IsNonDecreasingBy (λ x. x.rva) (omap bytes.now) →
        HandsOutIf result out.old out.new (Ok (moved_to (omap bytes.now) rva)) }
    ensures nothing { (result ≡ DONE → ⊥) → (result ≡ NOTHING) × (out.new ≡ out.old) }
{
    match moved_to(bytes, rva) {
        Some(moved) => {
            *out = moved;
            DONE
        }
        None => NOTHING,
    }
}
