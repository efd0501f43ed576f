//! A step of a stack walk by the records of a function, which are read here.
//!
//! Nearly all functions have one record, so that one is undone where it was read. Records that are chained, as those of a part of
//! a function that has a prolog of its own, are read into an array first: of 2, else of 8, else of 32, the most that are undone.
//! ([Microsoft's page](https://learn.microsoft.com/cpp/build/exception-handling-x64))

ghost use Rattle.std.specs.Prelude.{◌≡◌, ℕ, length};
ghost use Rattle.std.specs.Option.{option_map};
ghost use Rattle.pe_core.specs.Refusals.{answer_by, answer_of};
ghost use Rattle.pe_frame.specs.FunctionSteps.{StepsInFunction, StepsUpTo};
ghost use Rattle.pe_frame.specs.InPlace.{changed_with};

use crate::error::FrameError;
use crate::jump::{ImageFunctions, record_of, step_in_image, step_in_place};
use crate::memory::Memory;
use crate::plan::{FunctionPlan, Stopped};
use crate::registers::Registers;
use pe_core::{Result, RvaMap};
use pe_plan::read_plan;
use pe_unwind::laws::derives::clones_are_their_originals;
use pe_unwind::{RuntimeFunction, UnwindInfo};
use std::array::repeat;
use std::slice;

/// A function that lookup found in an image.
#[derive(Drop)]
struct FunctionInImage<'f, 'a, R> {
    functions: &'f ImageFunctions<'a, R>,
    function: RuntimeFunction,
}

/// A step by the records of a function, if an array has room for them.
fn step_in_room<'a, R: RvaMap, M: Memory>(
    found: &FunctionInImage<'_, 'a, R>,
    room: &mut [UnwindInfo<'a>],
    stopped: Stopped<'_>,
    registers: Registers,
    memory: &M,
) -> Result<Option<std::result::Result<(Registers, bool), FrameError>>>
    ensures { (n : ℕ) → length room.old ≡ n → StepsUpTo n found.now.functions.now.exceptions.now
        (R.offset found.now.functions.now.map.now) (M.word memory.now) found.now.function
        stopped.entry.rva stopped.entry.code.now registers (answer_of result) }
{
    let FunctionInImage {
        functions,
        function,
    } = *found;
    let ImageFunctions { exceptions, map } = *functions;
    match read_plan(exceptions, function, map, room) {
        Ok(Some(count)) => {
            let plan = FunctionPlan {
                start: function.begin_address,
                records: &room[..count],
            };
            let left = step_in_image(functions, plan, stopped, registers, memory);
            Ok(Some(left))
        }
        Ok(None) => Ok(None),
        Err(error) => Err(error),
    }
}

/// The same in room for two records, which any record fills. Out of line, so that no other step pays for the room.
#[inline(never)]
fn step_in_2<'a, R: RvaMap, M: Memory>(
    found: &FunctionInImage<'_, 'a, R>,
    info: UnwindInfo<'a>,
    stopped: Stopped<'_>,
    registers: Registers,
    memory: &M,
) -> Result<Option<std::result::Result<(Registers, bool), FrameError>>>
    ensures { StepsUpTo 2 found.now.functions.now.exceptions.now
        (R.offset found.now.functions.now.map.now) (M.word memory.now)
        found.now.function stopped.entry.rva stopped.entry.code.now registers
        (answer_of result) }
{
    clones_are_their_originals();
    let mut room: [UnwindInfo<'_>; 2] = repeat(info);
    step_in_room(found, &mut room, stopped, registers, memory)
}

/// The same in room for eight.
#[inline(never)]
fn step_in_8<'a, R: RvaMap, M: Memory>(
    found: &FunctionInImage<'_, 'a, R>,
    info: UnwindInfo<'a>,
    stopped: Stopped<'_>,
    registers: Registers,
    memory: &M,
) -> Result<Option<std::result::Result<(Registers, bool), FrameError>>>
    ensures { StepsUpTo 8 found.now.functions.now.exceptions.now
        (R.offset found.now.functions.now.map.now) (M.word memory.now)
        found.now.function stopped.entry.rva stopped.entry.code.now registers
        (answer_of result) }
{
    clones_are_their_originals();
    let mut room: [UnwindInfo<'_>; 8] = repeat(info);
    step_in_room(found, &mut room, stopped, registers, memory)
}

/// The same in room for as many as are undone at all.
#[inline(never)]
#[tactic(auto, using(crate::proofs::FunctionSteps::of_all_room))]
fn step_in_32<'a, R: RvaMap, M: Memory>(
    found: &FunctionInImage<'_, 'a, R>,
    info: UnwindInfo<'a>,
    stopped: Stopped<'_>,
    registers: Registers,
    memory: &M,
) -> Result<Option<std::result::Result<(Registers, bool), FrameError>>>
    ensures { StepsInFunction found.now.functions.now.exceptions.now
        (R.offset found.now.functions.now.map.now) (M.word memory.now)
        found.now.function stopped.entry.rva stopped.entry.code.now registers
        (answer_of result) }
{
    clones_are_their_originals();
    let mut room: [UnwindInfo<'_>; 32] = repeat(info);
    step_in_room(found, &mut room, stopped, registers, memory)
}

/// A step by the records of a function of which more than two are chained.
#[tactic(auto, using(crate::proofs::FunctionSteps::of_plan, crate::proofs::FunctionSteps::of_refusal, pe_plan::proofs::ShortPlans::refused_at_once))]
fn step_in_longer<R: RvaMap, M: Memory>(
    found: &FunctionInImage<'_, '_, R>,
    stopped: Stopped<'_>,
    registers: Registers,
    memory: &M,
) -> Result<Option<std::result::Result<(Registers, bool), FrameError>>>
    ensures { StepsInFunction found.now.functions.now.exceptions.now
        (R.offset found.now.functions.now.map.now) (M.word memory.now)
        found.now.function stopped.entry.rva stopped.entry.code.now registers
        (answer_of result) }
{
    let info = match record_of(found.functions, found.function) {
        Ok(info) => info,
        Err(error) => return Err(error),
    };
    match step_in_8(found, info, stopped, registers, memory) {
        Ok(Some(left)) => return Ok(Some(left)),
        Ok(None) => {}
        Err(error) => return Err(error),
    }
    match record_of(found.functions, found.function) {
        Ok(info) => step_in_32(found, info, stopped, registers, memory),
        Err(error) => Err(error),
    }
}

/// A step by the records of a function that are chained. The room grows with their number, as does the time to fill it.
#[tactic(auto, using(crate::proofs::FunctionSteps::of_plan, crate::proofs::FunctionSteps::of_refusal))]
fn step_in_chained<'a, R: RvaMap, M: Memory>(
    found: &FunctionInImage<'_, 'a, R>,
    info: UnwindInfo<'a>,
    stopped: Stopped<'_>,
    registers: Registers,
    memory: &M,
) -> Result<Option<std::result::Result<(Registers, bool), FrameError>>>
    ensures { StepsInFunction found.now.functions.now.exceptions.now
        (R.offset found.now.functions.now.map.now) (M.word memory.now)
        found.now.function stopped.entry.rva stopped.entry.code.now registers
        (answer_of result) }
{
    match step_in_2(found, info, stopped, registers, memory) {
        Ok(Some(left)) => Ok(Some(left)),
        Ok(None) => step_in_longer(found, stopped, registers, memory),
        Err(error) => Err(error),
    }
}

/// Puts registers in place of others, if there are any.
fn put(
    left: std::result::Result<(Registers, bool), FrameError>,
    registers: &mut Registers,
) -> std::result::Result<bool, FrameError>
    ensures { changed_with result registers.new ≡ left }
{
    match left {
        Ok((caller, is_interrupted)) => {
            *registers = caller;
            Ok(is_interrupted)
        }
        Err(error) => Err(error),
    }
}

/// A step by chained records in place.
#[inline(never)]
#[tactic(auto, using(crate::proofs::FunctionSteps::of_left, crate::proofs::FunctionSteps::of_none))]
fn chained_in_place<'a, R: RvaMap, M: Memory>(
    found: &FunctionInImage<'_, 'a, R>,
    info: UnwindInfo<'a>,
    stopped: Stopped<'_>,
    registers: &mut Registers,
    memory: &M,
) -> Result<Option<std::result::Result<bool, FrameError>>>
    ensures { StepsInFunction found.now.functions.now.exceptions.now
        (R.offset found.now.functions.now.map.now) (M.word memory.now)
        found.now.function stopped.entry.rva stopped.entry.code.now registers.old
        (answer_by (option_map (λ left. changed_with left registers.new)) result) }
{
    match step_in_chained(found, info, stopped, *registers, memory) {
        Ok(Some(left)) => Ok(Some(put(left, registers))),
        Ok(None) => Ok(None),
        Err(error) => Err(error),
    }
}

/// Makes the registers those of a function's caller, as [`step_in_image`] returns them by the function's records, which are read
/// here: those of its short plan. Returns whether an interrupt left them; `None` where 32 records are each chained to another, as
/// `ShortPlan::of_function` of pe_plan returns it. No registers are moved. Where the step is refused they mean nothing.
///
/// Errors: the first error of one of the records, before any is undone.
#[tactic(auto, using(crate::proofs::FunctionSteps::of_one_record, pe_plan::proofs::ShortPlans::refused_at_once))]
pub fn step_in_function_in_place<R: RvaMap, M: Memory>(
    functions: &ImageFunctions<'_, R>,
    function: RuntimeFunction,
    stopped: Stopped<'_>,
    registers: &mut Registers,
    memory: &M,
) -> Result<Option<std::result::Result<bool, FrameError>>>
    ensures { StepsInFunction functions.now.exceptions.now (R.offset functions.now.map.now)
        (M.word memory.now) function stopped.entry.rva stopped.entry.code.now registers.old
        (answer_by (option_map (λ left. changed_with left registers.new)) result) }
{
    let read = record_of(functions, function);
    // A record is undone where it was read: moving it takes longer than one of its codes.
    match read {
        Ok(ref info) if info.chained_info.is_none() => {
            let plan = FunctionPlan {
                start: function.begin_address,
                records: slice::from_ref(info),
            };
            let left = step_in_place(functions, plan, stopped, registers, memory);
            Ok(Some(left))
        }
        Ok(info) => {
            let found = FunctionInImage {
                functions,
                function,
            };
            chained_in_place(&found, info, stopped, registers, memory)
        }
        Err(error) => Err(error),
    }
}
