//! The calls of `inlined` in calls_pdb.

ghost use Rattle.calls_pdb.specs.PdbInlined.{HandsOutIds, HandsOutInlined, ids_in, inlined_functions, inlinees_at, stack_at};

use calls_base::results::{DONE, NOTHING, ROOM};
use calls_pdb::inlined::{PdbInlined, ids_in, inlinees_at, put_inlined, stack_at};
use calls_pdb::modules::PdbModule;
use calls_pdb::pdb::number_of_pdb;
use calls_pdb::symbols::PdbSymbol;
use pe_pdb::{MOST_INLINED, NO_INLINE_FRAME, TypeRecords};

/// Writes the inlined functions whose code is at an RVA to the start of `room`, the innermost first, each inlined in the one after it and
/// the last in the procedure; `written` is how many. There are none where the RVA is of the procedure alone. The rest of the room is
/// unchanged. `bytes` are those of the stream of `module`; `procedure` is what `pe_c_find_pdb_symbol` found in it. `ids` are the
/// bytes of the stream of ids, stream 4, and `starts` what `pe_c_pdb_ids` wrote: with other starts a function has another name, or none.
/// Of one function alone `name_result` and `line_result` say: `NOTHING` without a name, or a line; or the error of the stream of ids and
/// of the function's record in it, or of the lines of the module's inlined functions.
///
/// Errors: `SHORT` where the symbols are not inside the bytes; `SHORT`, `PDB_RECORD_SIZE`, `PDB_RECORD_TRUNCATED` of a record from that
/// of the procedure to its end; of an inlined function `SHORT`, `PDB_ANNOTATION`; `PDB_INLINE_DEPTH` where there are more than 64;
/// `ROOM`, and then `written` is how many entries the room has to have. An error changes nothing else.
#[unsafe(no_mangle)]
pub extern "C" fn pe_c_find_pdb_inlined(
    bytes: &[u8],
    module: &PdbModule,
    procedure: &PdbSymbol,
    rva: u32,
    ids: &[u8],
    starts: &[u64],
    room: &mut [PdbInlined],
    written: &mut u64,
) -> u32
    ensures { HandsOutInlined (inlined_functions bytes.now module.now procedure.now rva ids.now starts.now)
        result room.old room.new written.old written.new }
{
    let mut inlined = [NO_INLINE_FRAME; MOST_INLINED];
    let frames = match stack_at(bytes, module, procedure, rva, &mut inlined) {
        Ok(frames) => frames,
        Err(error) => return number_of_pdb(&error),
    };
    *written = frames.len() as u64;
    if frames.len() > room.len() {
        return ROOM;
    }
    // Most RVAs have none: the lines of a module are many.
    if frames.is_empty() {
        return DONE;
    }
    let inlinees = inlinees_at(bytes, &module.lines);
    put_inlined(&inlinees, &TypeRecords::parse(ids), starts, frames, room);
    DONE
}

/// Writes to the start of `room` where each record of the stream of ids starts, whose bytes these are, from the first record on, for
/// `pe_c_find_pdb_inlined`; `written` is how many. The rest of the room is unchanged.
///
/// Errors: `SHORT` where there are fewer than 56 bytes; `PDB_RECORD_TRUNCATED` where the records pass the end; `SHORT`,
/// `PDB_RECORD_SIZE`, `PDB_RECORD_TRUNCATED` of the first record that is refused; `ROOM`, and then `written` is how many entries the room
/// has to have. An error changes nothing else.
#[unsafe(no_mangle)]
pub extern "C" fn pe_c_pdb_ids(bytes: &[u8], room: &mut [u64], written: &mut u64) -> u32
    ensures { HandsOutIds (ids_in bytes.now) result room.old room.new written.old written.new }
{
    let (ids, count) = match ids_in(bytes) {
        Ok(found) => found,
        Err(error) => return number_of_pdb(&error),
    };
    if count > room.len() {
        *written = count as u64;
        return ROOM;
    }
    match ids.put_starts(room) {
        Ok(count) => {
            *written = count as u64;
            DONE
        }
        Err(error) => number_of_pdb(&error),
    }
}
