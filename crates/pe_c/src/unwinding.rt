//! Calls on functions of x64 and their unwind records, over calls_unwind.

ghost use Rattle.std.specs.Prelude.{◌≡◌, Some, Ok};
ghost use Rattle.pe_unwind.specs.ScopeTable.{scope_at};
ghost use Rattle.calls_base.specs.HandsOut.{HandsOut, HandsOutIf, result_number};
ghost use Rattle.calls_unwind.specs.Unwinding.{function_in, machine_table_at, HandsOutFound, HandsOutRecord, links_at, scopes_at, StepsCodes, HandsOutAll, code_stream};
ghost use Rattle.calls_base.specs.Views.{directory_sections, map_of};
ghost use Rattle.calls_base.specs.Walks.{next_of, walk_of};
ghost use Rattle.calls_unwind.specs.Plans.{HandsOutPlan};
ghost use Rattle.calls_base.specs.KeptSections.{KeepsOn, map_kept};
ghost use Rattle.calls_base.specs.Lists.{HandsOutList, Numbered, StepsByIndex, if_there};

use calls_base::kept_sections::{KeptView, kept_after};
use calls_base::lists::{Steps, hand_out_list, if_there};
use calls_base::ranges::{Range, slice_of};
use calls_base::results::{DONE, NOTHING, ROOM, hand_out, hand_out_some, number_of};
use calls_base::view::View;
use calls_unwind::lists::x64::{
    CodeBytes, CodeForm, Entries, Functions, finish_codes, list_codes, put_frequent,
};
use calls_unwind::unwinding::plan::{PlanWalk, next_record};
use calls_unwind::unwinding::{
    Code, CodeWalk, UnwindRecord, find, function_in, hand_out_far, hand_out_handled, machine_table,
    near_offset, next_scope, put_plain, scopes_in,
};
use pe_core::{RvaMap, TableEntry};
use pe_unwind::{RuntimeFunction, ScopeTableEntry, search};

/// Returns the range of the function table of an image for a machine: entries of 12 bytes on x64, of 8 on ARM64. `NOTHING` where it
/// has none, or is for another machine, and for the numbers of other machines.
///
/// Errors: `EXCEPTION_SIZE`, `UNMAPPED`, `EXCEPTION_OFFSET`, `EXCEPTION_BOUNDS`.
#[unsafe(no_mangle)]
pub extern "C" fn pe_c_exception_table(view: &View, machine: u32, out: &mut Range) -> u32
    ensures { HandsOutIf result out.old out.new
        (machine_table_at machine view.now.bytes.now view.now.image.now
        (directory_sections view.now 3) view.now.image.now.mode) }
{
    hand_out_some(machine_table(view, machine), out)
}

/// Reads the entry with an index, from 0, of the function table at this range. A list with room for one takes half as many instructions
/// more.
///
/// Errors: `SHORT` where the range is not inside the bytes; `FUNCTION_INDEX` where the table has no such entry.
#[unsafe(no_mangle)]
pub extern "C" fn pe_c_function_at(
    bytes: &[u8],
    table: &Range,
    index: u64,
    out: &mut RuntimeFunction,
) -> u32
    ensures { HandsOut result out.old out.new (function_in bytes.now table.now index) }
{
    hand_out(function_in(bytes, table, index), out)
}

/// Returns the function that covers an RVA, by one `search` of pe_unwind in the function table at this range: `NOTHING`
/// where it finds none. In a table sorted by start RVA it finds what a linear scan finds; in any other it finds some
/// function that covers the RVA, or none.
///
/// Errors: `SHORT` where the range is not inside the bytes.
#[unsafe(no_mangle)]
pub extern "C" fn pe_c_find_function(
    bytes: &[u8],
    table: &Range,
    rva: u32,
    out: &mut RuntimeFunction,
) -> u32
    ensures { HandsOutFound bytes.now table.now rva result out.old out.new }
{
    match slice_of(bytes, table) {
        Ok(entries) => hand_out_some(Ok(find(entries, rva)), out),
        Err(error) => number_of(&error),
    }
}

/// Reads the unwind record of an unwind RVA, which is a field of a function of the table at this range. An odd RVA is a
/// link to another entry of the table; links are followed to their end.
///
/// Errors: `SHORT` where the table is not inside the bytes; `UNMAPPED`, `FUNCTION_LINK` where a link leads to no entry,
/// `FUNCTION_CYCLE` where the links never end; `UNMAPPED` of the record's RVA; `SHORT`, `UNWIND_VERSION` of the record.
#[unsafe(no_mangle)]
#[tactic(auto, using(calls_unwind::proofs::EvenRecords::near_done, calls_unwind::proofs::EvenRecords::near_any))]
pub extern "C" fn pe_c_unwind_record(
    view: &View,
    table: &Range,
    unwind: u32,
    out: &mut UnwindRecord,
) -> u32
    ensures { HandsOutRecord view.now.bytes.now (links_at (map_of view.now) view.now.bytes.now table.now) unwind
        result out.old out.new }
{
    match near_offset(view, table, unwind) {
        Some(offset) => {
            if put_plain(view.bytes, offset, out) {
                DONE
            } else {
                hand_out_handled(view.bytes, offset, out)
            }
        }
        None => hand_out_far(view, table, unwind, out),
    }
}

/// Returns the scope table in the data of an exception handler for C as a walk over its entries: `NOTHING` where it is
/// truncated. Any data is read as a scope table: the caller knows by the handler that it is one.
///
/// Errors: `SHORT` where the range is not inside the bytes.
#[unsafe(no_mangle)]
pub extern "C" fn pe_c_scope_table(bytes: &[u8], handler_data: &Range, out: &mut Range) -> u32
    ensures { HandsOutIf result out.old out.new (scopes_at bytes.now handler_data.now) }
{
    hand_out_some(scopes_in(bytes, handler_data), out)
}

/// Reads the next entry of a scope table: `NOTHING` at the end of the walk.
///
/// Errors: `SHORT` where the walk is not inside the bytes, or an entry is truncated. After it the walk is over.
#[unsafe(no_mangle)]
pub extern "C" fn pe_c_next_scope(bytes: &[u8], walk: &mut Range, out: &mut ScopeTableEntry) -> u32
    ensures scope { HandsOutIf result out.old out.new (next_of scope_at 16 bytes.now walk.old) }
    ensures walk { walk.new ≡ walk_of 16 bytes.now walk.old }
{
    hand_out_some(next_scope(bytes, walk), out)
}

/// Reads the next record of a plan, by the function table at this range: `NOTHING` after the root.
///
/// Errors: those of `pe_c_unwind_record` for the next record; `FUNCTION_CYCLE` where it continues at the saved RVA.
/// After an error the plan is over.
#[unsafe(no_mangle)]
pub extern "C" fn pe_c_next_record(
    view: &View,
    table: &Range,
    walk: &mut PlanWalk,
    out: &mut UnwindRecord,
) -> u32
    ensures plan { HandsOutPlan view.now.bytes.now
        (links_at (map_kept view.now walk.old.kept) view.now.bytes.now table.now)
        walk.old.plan walk.new.plan result out.old out.new }
    ensures kept { KeepsOn view.now result walk.old.kept walk.new.kept }
{
    let (unwind, kept) = (walk.plan.unwind, walk.kept);
    let map = KeptView { view, kept };
    let given = next_record(view.bytes, table, &map, &mut walk.plan);
    if let Ok(Some(_)) = &given {
        walk.kept = kept_after(view, kept, unwind);
    }
    hand_out_some(given, out)
}

/// Lists the entries of a function table from an index on, as `pe_c_function_at` reads them, and moves `next` past them.
///
/// Errors: `ROOM` where `entries` is empty; `SHORT` where the range is not inside the bytes.
#[unsafe(no_mangle)]
pub extern "C" fn pe_c_list_functions(
    bytes: &[u8],
    table: &Range,
    next: &mut u64,
    entries: &mut [RuntimeFunction],
    written: &mut u64,
) -> u32
    ensures { HandsOutList (Numbered result_number
        (StepsByIndex (λ i. if_there (function_in bytes.now table.now i))))
        result next.old next.new entries.old entries.new written.old written.new }
{
    match slice_of(bytes, table) {
        Ok(table) => hand_out_list(&Entries { table }, next, entries, written),
        // The first step is refused.
        Err(_) => hand_out_list(&Functions { bytes, table }, next, entries, written),
    }
}

/// Lists the codes of a walk, as `pe_c_next_code` returns them, and moves the walk past them.
///
/// Errors: `ROOM` where `entries` is empty; those of `pe_c_next_code`.
#[unsafe(no_mangle)]
pub extern "C" fn pe_c_list_codes(
    bytes: &[u8],
    walk: &mut CodeWalk,
    entries: &mut [Code],
    written: &mut u64,
) -> u32
    ensures { HandsOutList (Numbered result_number (StepsCodes bytes.now))
        result walk.old walk.new entries.old entries.new written.old written.new }
{
    list_codes(bytes, walk, entries, written)
}

/// Lists all codes of a record in one call. `bytes` are those of its codes alone. A record has at most 255 codes.
///
/// `written` is how many are written, after an error too: then those before the code that is refused. The rest of `entries` is
/// unchanged.
///
/// Errors: `ROOM` where bytes are left after as many codes as `entries`, whatever they start with; those of `pe_c_next_code`.
#[unsafe(no_mangle)]
pub extern "C" fn pe_c_all_codes(
    bytes: &[u8],
    form: &CodeForm,
    entries: &mut [Code],
    written: &mut u64,
) -> u32
    ensures { HandsOutAll (code_stream bytes.now form.now.version form.now.frame_register)
        result entries.old entries.new written.new }
{
    let mut codes = CodeBytes {
        left: bytes,
        version: form.version,
        frame_register: form.frame_register,
    };
    *written = put_frequent(&mut codes, entries) as u64;
    if codes.left.is_empty() {
        return DONE;
    }
    finish_codes(
        codes.left,
        codes.version,
        codes.frame_register,
        entries,
        written,
    )
}
