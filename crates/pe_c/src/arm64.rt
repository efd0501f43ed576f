//! Calls on functions of ARM64, their unwind records and codes, and on stacks there, over calls_unwind and calls_stacks.

ghost use Rattle.std.specs.Prelude.{◌≡◌, length, ◌-◌, ◌/◌, ◌<◌};
ghost use Rattle.calls_unwind.specs.Arm64.{HandsOutArm64Found, packed_fields, arm64_record_of, flat_scope_at, arm64_walk_at, StepsArm64Codes, arm64_function_in};
ghost use Rattle.calls_base.specs.Views.{map_of};
ghost use Rattle.calls_base.specs.HandsOut.{HandsOutIf, HandsOut, result_number};
ghost use Rattle.calls_base.specs.Walks.{next_of, walk_of};
ghost use Rattle.calls_base.specs.Lists.{HandsOutList, Numbered, StepsByIndex, if_there};
ghost use Rattle.calls_stacks.specs.Arm64Frames.{HandsOutArm64Step};
ghost use Rattle.pe_frame.specs.Arm64Walks.{Calls};
ghost use Rattle.calls_stacks.specs.Arm64StackWalks.{arm64_stack_walks};
ghost use Rattle.calls_stacks.specs.FrameCalls.{HandsOutFrames};

use calls_base::lists::{Steps, hand_out_list, if_there};
use calls_base::ranges::Range;
use calls_base::results::{DONE, hand_out, hand_out_some, number_of};
use calls_base::view::View;
use calls_stacks::arm64::frames::{Arm64StackFrame, step_over};
use calls_stacks::arm64::stack_walk::Arm64StackWalk;
use calls_stacks::stack::calls::{ProcessView, WalkRecord, next_frames_over};
use calls_stacks::stack::walk::ModuleView;
use calls_unwind::arm64::codes::{Arm64Code, Arm64CodeWalk, Codes, Functions, codes_at};
use calls_unwind::arm64::functions::{Arm64Packed, find};
use calls_unwind::arm64::records::{Arm64Record, Arm64Scope, next_scope, read_record};
use pe_core::{RvaMap, TableEntry};
use pe_frame::{Memory, MemoryList, MemoryPiece, step_arm64_packed, step_out_arm64};
use pe_unwind::{Arm64RuntimeFunction, search_arm64};

/// Returns the function that covers an RVA, by one `search_arm64` of pe_unwind in the function table at this range:
/// `NOTHING` where it finds none. Lookup goes by the starts alone, and then reads the length of one function, which is
/// packed into its entry or stands in its unwind record. In a table sorted by start RVA it finds what a linear scan finds;
/// in any other it finds some function that covers the RVA, or none.
///
/// Errors: `SHORT` where the range is not inside the bytes; of the record `UNMAPPED`, and `SHORT` where its first word is
/// truncated.
#[unsafe(no_mangle)]
pub extern "C" fn pe_c_find_arm64_function(
    view: &View,
    table: &Range,
    rva: u32,
    out: &mut Arm64RuntimeFunction,
) -> u32
    ensures { HandsOutArm64Found (map_of view.now) view.now.bytes.now table.now rva
        result out.old out.new }
{
    hand_out_some(find(view, table, rva), out)
}

/// Reads the fields of packed unwind data from an entry. Always returns `DONE`: where the data is not packed, the
/// fields mean nothing.
#[unsafe(no_mangle)]
pub extern "C" fn pe_c_arm64_packed_fields(
    function: &Arm64RuntimeFunction,
    out: &mut Arm64Packed,
) -> u32
    ensures done { result ≡ DONE }
    ensures fields { out.new ≡ packed_fields function.now }
{
    *out = Arm64Packed {
        flag: function.flag(),
        function_length: function.function_length(),
        frame_size: function.frame_size(),
        reg_f: function.reg_f(),
        reg_i: function.reg_i(),
        h: u32::from(function.h()),
        cr: function.cr(),
        is_packed: u32::from(function.is_packed()),
    };
    DONE
}

/// Reads the unwind record of a function: `NOTHING` where its unwind data is packed.
///
/// Errors: those of `pe_c_arm64_table`, also where the data is packed; `UNMAPPED` of the record's RVA; `SHORT` and
/// `ARM64_VERSION` of the record, whose version has to be 0.
#[unsafe(no_mangle)]
pub extern "C" fn pe_c_arm64_unwind_record(
    view: &View,
    function: &Arm64RuntimeFunction,
    out: &mut Arm64Record,
) -> u32
    ensures { HandsOutIf result out.old out.new
        (arm64_record_of (map_of view.now) view.now.bytes.now view.now.image.now function.now) }
{
    hand_out_some(read_record(view, *function), out)
}

/// Reads the next epilog scope of a walk: `NOTHING` at its end.
///
/// Errors: `SHORT` where the walk is not inside the bytes, or a scope is truncated. After it the walk is over.
#[unsafe(no_mangle)]
pub extern "C" fn pe_c_next_arm64_scope(bytes: &[u8], walk: &mut Range, out: &mut Arm64Scope) -> u32
    ensures scope { HandsOutIf result out.old out.new (next_of flat_scope_at 4 bytes.now walk.old) }
    ensures walk { walk.new ≡ walk_of 4 bytes.now walk.old }
{
    hand_out_some(next_scope(bytes, walk), out)
}

/// Returns a walk over the codes of a record that starts at a code byte, by its index: 0 for the prolog, `start_index`
/// of a scope or `epilog_start` for an epilog.
///
/// Errors: `SHORT` where the codes are not inside the bytes; `ARM64_STREAM` where their length is not a multiple of 4,
/// is below the start, or is above 4,294,967,292.
#[unsafe(no_mangle)]
pub extern "C" fn pe_c_arm64_codes(
    bytes: &[u8],
    codes: &Range,
    start: u64,
    out: &mut Arm64CodeWalk,
) -> u32
    ensures { HandsOut result out.old out.new (arm64_walk_at bytes.now codes.now start) }
{
    hand_out(codes_at(bytes, codes, start), out)
}

/// Lists the entries of a function table from an index on, as `pe_c_arm64_function_at` reads them, and moves `next` past them.
///
/// Errors: `ROOM` where `entries` is empty; `SHORT` where the range is not inside the bytes.
#[unsafe(no_mangle)]
pub extern "C" fn pe_c_list_arm64_functions(
    bytes: &[u8],
    table: &Range,
    next: &mut u64,
    entries: &mut [Arm64RuntimeFunction],
    written: &mut u64,
) -> u32
    ensures { HandsOutList (Numbered result_number
        (StepsByIndex (λ i. if_there (arm64_function_in bytes.now table.now i))))
        result next.old next.new entries.old entries.new written.old written.new }
{
    let functions = Functions { bytes, table };
    hand_out_list(&functions, next, entries, written)
}

/// Lists the codes of a walk, as `pe_c_next_arm64_code` returns them, and moves the walk past them.
///
/// Errors: `ROOM` where `entries` is empty; those of `pe_c_next_arm64_code`.
#[unsafe(no_mangle)]
pub extern "C" fn pe_c_list_arm64_codes(
    bytes: &[u8],
    walk: &mut Arm64CodeWalk,
    entries: &mut [Arm64Code],
    written: &mut u64,
) -> u32
    ensures { HandsOutList (Numbered result_number (StepsArm64Codes bytes.now))
        result walk.old walk.new entries.old entries.new written.old written.new }
{
    hand_out_list(&Codes { bytes }, walk, entries, written)
}

/// Finds the registers of a function's caller, from those inside the function, and writes them over those of `frame`. It is
/// `step_out_arm64` of pe_frame by the unwind record of the frame's function, or `step_arm64_packed` where its unwind data are
/// packed. The function is the one that lookup found: by the RVA in the top frame and where `interrupted` is 1, by the RVA less
/// four in every other. Where lookup found none, `leaf` of the frame is 1, and the caller goes on at the link register: then the
/// image, the function, the RVA and the stack are not read. `interrupted` of the frame is set to 1 if no call left the registers of
/// the caller, which is then at the instruction that is about to run, else to 0. `memory` and `pieces` are as in `pe_c_step`.
///
/// Errors: `SHORT` if a piece does not lie in `memory`. Then those of `pe_c_arm64_unwind_record` without those of the table, then
/// `ARM64_CUT` of a code, `BAD_OPERATION`, `BAD_ADDRESS`, `MISSING` and `NOT_RISING`. Of these `BAD_ADDRESS`, `MISSING` and
/// `NOT_RISING` set `address`; nothing else of the frame changes. With more memory the same call can be made again.
#[unsafe(no_mangle)]
pub extern "C" fn pe_c_step_arm64(
    view: &View<'_>,
    memory: &[u8],
    pieces: &[MemoryPiece],
    frame: &mut Arm64StackFrame,
) -> u32
    ensures { HandsOutArm64Step view.now memory.now pieces.now result frame.old frame.new }
{
    match MemoryList::new(memory, pieces) {
        Ok(memory) => step_over(view, &memory, frame),
        Err(error) => number_of(&error),
    }
}

/// As `pe_c_next_frames` on ARM64, as `Arm64StackFrames` of pe_frame does. The function table of a module is that which
/// `pe_c_arm64_table` returns.
///
/// Errors: those of `pe_c_next_frames`.
#[unsafe(no_mangle)]
pub extern "C" fn pe_c_next_arm64_frames(
    modules: &[ModuleView<'_>],
    memory: &[u8],
    pieces: &[MemoryPiece],
    walk: &mut Arm64StackWalk,
    frames: &mut [Arm64StackWalk],
    count: &mut u64,
) -> u32
    ensures { HandsOutFrames Calls arm64_stack_walks modules.now memory.now pieces.now result
        (frames.old, count.old) (frames.new, count.new) walk.old walk.new }
{
    let process = ProcessView {
        modules,
        memory,
        pieces,
    };
    next_frames_over(&process, walk, frames, count)
}
