//! Calls that walk stacks on x64 and name functions, over calls_stacks.

ghost use Rattle.std.specs.Prelude.{◌<◌, Ok, Err, ◌≡◌, length};
ghost use Rattle.pe_core.specs.Rows.{each};
ghost use Rattle.pe_frame.specs.Undoing.{popped};
ghost use Rattle.calls_stacks.specs.StackFrames.{HandsOutStep};
ghost use Rattle.pe_frame.specs.Walks.{Calls};
ghost use Rattle.calls_stacks.specs.FrameCalls.{HandsOutFrames};
ghost use Rattle.calls_stacks.specs.StackWalks.{stack_walks};
ghost use Rattle.calls_stacks.specs.FunctionNames.{PutsNames, functions_of, name_tables, strings_of, symbols_of};

use calls_base::ranges::{NO_BYTES, Range, bytes_there};
use calls_base::results::{
    BAD_ADDRESS, BAD_OPERATION, DONE, LONG_CHAIN, MISSING, NOT_RISING, ROOM, hand_out_some,
    number_of,
};
use calls_base::view::View;
use calls_directories::names::exports::tables_at;
use calls_stacks::stack::calls::{ProcessView, WalkRecord, next_frames_over};
use calls_stacks::stack::frames::{StackFrame, step_over};
use calls_stacks::stack::function_names::{
    CodeAddress, FunctionName, NO_EXPORTS, NameSources, functions_of, put_names, strings_of,
    symbols_of,
};
use calls_stacks::stack::walk::{ModuleView, StackWalk};
use pe_core::{RvaMap, SIZE_OF_SYMBOL};
use pe_frame::{CallSites, LoadedModules, Memory, MemoryList, MemoryPiece};
use pe_lookup::AddressRange;

/// Finds the registers of a function's caller, from those inside the function, and writes them over those of `frame`. It is
/// `step_in_function_in_place` of pe_frame by the records of the frame's function, which is the one that lookup found in `table`:
/// by the RVA in the top frame and after an interrupt, by the RVA less one in every other. Where lookup found none, `leaf` of the
/// frame is 1, and the return address is popped: then the image, the table, the code, the function and the RVA are not read.
///
/// `code` has the function's bytes from the RVA to its end there, and is empty where the RVA is a return address. Where an
/// epilog ends with a jump, the function at its target is looked up in the table, and its records are undone. `memory` has the
/// bytes of the stack, and `pieces` says where each is. A byte is that of the first piece that has its address: by binary search in
/// pieces in ascending order that do not overlap, in any others in turn.
///
/// `interrupted` of the frame is set to 1 if an interrupt left the registers of the caller, which is then at the instruction that
/// is about to run, else to 0.
///
/// Errors: `SHORT` if a piece does not lie in `memory`; `SHORT` if the table does not lie in the bytes; then for each record those
/// of `pe_c_unwind_record`, and `LONG_CHAIN` where more than 32 are chained. Then those of `step_in_image`: `SHORT` or
/// `UNWIND_CODE` of a code, `BAD_OPERATION`, `BAD_ADDRESS`, `MISSING` and `NOT_RISING`. Of a leaf `MISSING` if the return address
/// is not there, `BAD_ADDRESS` if it is the last word below 2^64. `BAD_ADDRESS`, `MISSING` and `NOT_RISING` set `address`; nothing
/// else of the frame changes. With more memory the same call can be made again.
#[unsafe(no_mangle)]
pub extern "C" fn pe_c_step(
    view: &View<'_>,
    table: &Range,
    code: &[u8],
    memory: &[u8],
    pieces: &[MemoryPiece],
    frame: &mut StackFrame,
) -> u32
    ensures { HandsOutStep view.now table.now code.now memory.now pieces.now
        result frame.old frame.new }
{
    match MemoryList::new(memory, pieces) {
        Ok(memory) => step_over(view, table, code, &memory, frame),
        Err(error) => number_of(&error),
    }
}

/// Fills `frames` with the next frames of a stack walk on x64: the top frame as it is, and then the caller of each, as `StackFrames`
/// of pe_frame does. Each is the walk as it is after a frame. Sets `count` to how many there are. `NOTHING` where the walk was over
/// before all were filled: `end` of the walk says why. Of an empty array all are filled, also where the walk is over.
///
/// The first module that has an address is that of the address: by binary search in modules in ascending order that do not overlap,
/// in any others in turn. `memory` has the bytes of the stack, and `pieces` says where each is, as in `pe_c_step`. The modules are
/// tested once a call.
///
/// The first call of a walk tests all pieces. Where they are in ascending order and do not overlap it sets `is_searched` of the walk,
/// also of one that is over, and later calls then find a piece by halving, and test only those that they read. The caller passes the
/// same pieces in all calls of a walk: with others a word may be unknown, or be that of another piece than the first that has it, but
/// no byte outside of `memory` is read.
///
/// Errors, which change nothing: `SHORT` if the function table of a module does not lie in its bytes, or, of a walk whose
/// `is_searched` is 0, a piece not in `memory`.
#[unsafe(no_mangle)]
pub extern "C" fn pe_c_next_frames(
    modules: &[ModuleView<'_>],
    memory: &[u8],
    pieces: &[MemoryPiece],
    walk: &mut StackWalk,
    frames: &mut [StackWalk],
    count: &mut u64,
) -> u32
    ensures { HandsOutFrames Calls stack_walks modules.now memory.now pieces.now result
        (frames.old, count.old) (frames.new, count.new) walk.old walk.new }
{
    let process = ProcessView {
        modules,
        memory,
        pieces,
    };
    next_frames_over(&process, walk, frames, count)
}

/// Reads the tables of an image of which `pe_c_function_names` reads names. One that is damaged does not cost the others: its result
/// says why. Always returns `DONE`.
#[unsafe(no_mangle)]
pub extern "C" fn pe_c_name_tables(view: &View, out: &mut NameSources) -> u32
    ensures done { result ≡ DONE }
    ensures tables { out.new ≡ name_tables view.now }
{
    let mut functions = NO_BYTES;
    let mut symbols = NO_BYTES;
    let mut strings = NO_BYTES;
    let mut exports = NO_EXPORTS;
    let functions_result = hand_out_some(functions_of(view), &mut functions);
    let symbols_result = hand_out_some(symbols_of(view), &mut symbols);
    let strings_result = hand_out_some(strings_of(view), &mut strings);
    let exports_result = hand_out_some(tables_at(view), &mut exports);
    *out = NameSources {
        functions,
        symbols,
        strings,
        exports,
        room: symbols.length / SIZE_OF_SYMBOL as u64 + exports.names.length / 4,
        functions_result,
        symbols_result,
        strings_result,
        exports_result,
    };
    DONE
}

/// Writes to `names` what names each of these addresses, in their order; the rest of `names` is unchanged. It is
/// - the last function symbol at or before the address that lies within its function: a COFF symbol of the type 0x20 and the class
///   `IMAGE_SYM_CLASS_EXTERNAL` or `_STATIC`. A function is an entry of the function table, from its start to its end. Of several
///   symbols at one RVA it is the first of the table;
/// - else the export that starts the function, the first of the name table. Forwarders are none;
/// - in an image without a function table the last symbol or export at or before the address, a symbol where both are at one RVA;
/// - else nothing: also where no entry of the function table has the address. An entry whose record is chained is a function of its own.
///
/// `sources` is what `pe_c_name_tables` returned. `room` has to have as many numbers as it says; what is in it then is left open. What
/// has a name is sorted in it, and each address is looked up by binary search: n entries of tables and m addresses take as long as
/// (n + m) log n steps, and to read at most 4,096 bytes for each address.
///
/// Errors, which change nothing: `ROOM` where `room` or `names` is too short.
#[unsafe(no_mangle)]
pub extern "C" fn pe_c_function_names(
    view: &View,
    sources: &NameSources,
    addresses: &[CodeAddress],
    room: &mut [u64],
    names: &mut [FunctionName],
) -> u32
    ensures { PutsNames view.now sources.now addresses.now result (room.old, room.new) (names.old, names.new) }
{
    let symbols = bytes_there(view.bytes, &sources.symbols).len() / SIZE_OF_SYMBOL;
    let exports = bytes_there(view.bytes, &sources.exports.names).len() / 4;
    if room.len() < symbols + exports || names.len() < addresses.len() {
        return ROOM;
    }
    put_names(view, sources, addresses, room, names);
    DONE
}
