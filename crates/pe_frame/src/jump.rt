//! Jumps out of a function: a step in an image, where the function at the target of a jump can be looked up.
//!
//! An epilog may end with a jump in place of a return. The target may be another function, which returns to the caller, or a
//! part of the same function that no record is chained to, as the `.cold` parts of GCC: there the frame is still in place. A jump
//! changes no register but `rip`, so the caller is that of a frame at the target, by the records of the function there
//! ([Microsoft's page](https://learn.microsoft.com/cpp/build/exception-handling-x64)), whichever of the two it is.

ghost use Rattle.std.specs.Prelude.{◌≡◌, ⊤, map, Some};
ghost use Rattle.pe_core.specs.Refusals.{answer_by};
ghost use Rattle.pe_unwind.specs.Links.{links_with};
ghost use Rattle.pe_unwind.specs.UnwindRecord.{unwind_view};
ghost use Rattle.pe_unwind.specs.Unwinding.{Unwinds};
ghost use Rattle.pe_frame.specs.Jumps.{LeavesFor, LeavesForFound, LeavesForTarget, LeavesInImage, StepsInImage, before_last, place_with, risen_out};
ghost use Rattle.pe_frame.specs.Epilogs.{executed_all};
ghost use Rattle.pe_frame.specs.Steps.{UndoesFunction, Then};
ghost use Rattle.pe_frame.specs.InPlace.{changed_with};
ghost use Rattle.pe_frame.specs.Tails.{instructions_of};

use crate::epilog::{Tail, execute_before_exit, target_of};
use crate::error::FrameError;
use crate::frame::{epilog_at, require_rising, run_out, undo_function_in_place};
use crate::memory::Memory;
use crate::plan::{FunctionPlan, Stopped};
use crate::registers::{RSP, Registers};
use pe_core::RvaMap;
use pe_plan::ShortPlan;
use pe_unwind::{ExceptionData, RuntimeFunction, UnwindInfo, search};
use std::alloc::AllocError;
use std::slice;

/// The functions of an image, in which the target of a jump is looked up.
pub struct ImageFunctions<'a, R> {
    /// The exception data of the image.
    pub exceptions: &'a ExceptionData<'a>,
    /// What maps its RVAs, as `ExceptionData::section_map` returns it.
    pub map: &'a R,
}

// By hand: the derives would ask that the map can be copied too, of which this has a reference alone.
impl<'a, R> Copy for ImageFunctions<'a, R> {}

impl<'a, R> Clone for ImageFunctions<'a, R> {
    ghost is_clone = { λ x y. y ≡ x };

    ghost is_infallible = { λ _. ⊤ };

    fn clone(&self) -> Result<Self, AllocError> {
        Ok(*self)
    }
}

/// The record of a function.
#[inline(always)]
pub(crate) fn record_of<'a, R: RvaMap>(
    functions: &ImageFunctions<'a, R>,
    function: RuntimeFunction,
) -> pe_core::Result<UnwindInfo<'a>>
    ensures { Unwinds (links_with functions.now.exceptions.now (R.offset functions.now.map.now))
        functions.now.exceptions.now.content function.unwind_info_address
        (answer_by unwind_view result) }
{
    let ImageFunctions { exceptions, map } = *functions;
    exceptions.get_unwind_info_with_map(function, map)
}

/// Tests that the stack pointer of registers that a step from the target of a jump left is above this one, unless an interrupt
/// left them.
fn risen_out(
    stack_pointer: u64,
    left: Result<bool, FrameError>,
    registers: &Registers,
) -> Result<bool, FrameError>
    ensures { changed_with result registers.now
        ≡ risen_out stack_pointer (changed_with left registers.now) }
{
    match left {
        Ok(true) => Ok(true),
        Ok(false) => {
            require_rising(stack_pointer, registers)?;
            Ok(false)
        }
        Err(error) => Err(error),
    }
}

/// Makes the registers those that undoing the records at the target of a jump returns, after the rest of an epilog up to the
/// jump.
fn undo_after_jump<M: Memory>(
    plan: &[UnwindInfo<'_>],
    offset: u32,
    tail: &Tail<'_>,
    registers: &mut Registers,
    memory: &M,
) -> Result<bool, FrameError>
    ensures { Then (executed_all (M.word memory.now)
        (before_last (instructions_of tail.now)) registers.old)
        (UndoesFunction (M.word memory.now) (map unwind_view plan.now) offset)
        (changed_with result registers.new) }
{
    match execute_before_exit(tail, registers, memory) {
        Ok(()) => undo_function_in_place(plan, offset, registers, memory),
        Err(error) => Err(error),
    }
}

/// Makes the registers those of the caller after the rest of an epilog, which jumps so far into a function with these records.
fn leave_to<M: Memory>(
    plan: &[UnwindInfo<'_>],
    offset: u32,
    tail: &Tail<'_>,
    registers: &mut Registers,
    memory: &M,
) -> Result<bool, FrameError>
    ensures { LeavesFor (Some (place_with offset (map unwind_view plan.now)))
        (M.word memory.now) (instructions_of tail.now) registers.old
        (changed_with result registers.new) }
{
    let stack_pointer = registers.general[RSP];
    let left = undo_after_jump(plan, offset, tail, registers, memory);
    risen_out(stack_pointer, left, registers)
}

/// Where a jump leads: an RVA in a function.
#[derive(Clone, Copy)]
struct Target {
    rva: u32,
    function: RuntimeFunction,
}

/// The same of a jump into a function of which records are chained. Out of line, as the room for them is large.
#[inline(never)]
fn leave_for_chained<R: RvaMap, M: Memory>(
    functions: &ImageFunctions<'_, R>,
    target: Target,
    tail: &Tail<'_>,
    registers: &mut Registers,
    memory: &M,
) -> Result<bool, FrameError>
    ensures { LeavesForFound functions.now.exceptions.now (R.offset functions.now.map.now)
        target.rva (Some target.function) (M.word memory.now) (instructions_of tail.now) registers.old
        (changed_with result registers.new) }
{
    let ImageFunctions { exceptions, map } = *functions;
    let Target { rva, function } = target;
    match ShortPlan::of_function(exceptions, function, map) {
        Ok(Some(plan)) => {
            let offset = rva.saturating_sub(function.begin_address);
            leave_to(plan.records(), offset, tail, registers, memory)
        }
        Ok(None) => run_out(tail, registers, memory),
        Err(_) => run_out(tail, registers, memory),
    }
}

/// Makes the registers those of the caller after the rest of an epilog, which jumps to an RVA in a function, or leaves otherwise
/// if the records of the function cannot be read or are too many.
fn leave_for_function<R: RvaMap, M: Memory>(
    functions: &ImageFunctions<'_, R>,
    target: Target,
    tail: &Tail<'_>,
    registers: &mut Registers,
    memory: &M,
) -> Result<bool, FrameError>
    ensures { LeavesForFound functions.now.exceptions.now (R.offset functions.now.map.now)
        target.rva (Some target.function) (M.word memory.now) (instructions_of tail.now) registers.old
        (changed_with result registers.new) }
{
    let Target { rva, function } = target;
    let info = match record_of(functions, function) {
        Ok(info) => info,
        Err(_) => return run_out(tail, registers, memory),
    };
    if info.chained_info.is_some() {
        return leave_for_chained(functions, target, tail, registers, memory);
    }
    let offset = rva.saturating_sub(function.begin_address);
    leave_to(slice::from_ref(&info), offset, tail, registers, memory)
}

/// The same of a jump to an RVA, which may be in no function.
fn leave_for_rva<R: RvaMap, M: Memory>(
    functions: &ImageFunctions<'_, R>,
    rva: u32,
    tail: &Tail<'_>,
    registers: &mut Registers,
    memory: &M,
) -> Result<bool, FrameError>
    ensures { LeavesForTarget functions.now.exceptions.now (R.offset functions.now.map.now)
        (Some rva) (M.word memory.now) (instructions_of tail.now) registers.old
        (changed_with result registers.new) }
{
    let mut table = functions.exceptions.table();
    match search(&mut table, rva) {
        Some(function) => {
            let target = Target { rva, function };
            leave_for_function(functions, target, tail, registers, memory)
        }
        None => run_out(tail, registers, memory),
    }
}

/// Makes the registers those after the rest of an epilog in an image. Returns whether an interrupt left them. Out of line, as few
/// frames are in an epilog.
#[inline(never)]
fn leave_in_place<R: RvaMap, M: Memory>(
    functions: &ImageFunctions<'_, R>,
    tail: &Tail<'_>,
    registers: &mut Registers,
    memory: &M,
) -> Result<bool, FrameError>
    ensures { LeavesInImage functions.now.exceptions.now (R.offset functions.now.map.now)
        (M.word memory.now) (instructions_of tail.now) registers.old
        (changed_with result registers.new) }
{
    match target_of(tail) {
        Some(rva) => leave_for_rva(functions, rva, tail, registers, memory),
        None => run_out(tail, registers, memory),
    }
}

/// Makes the registers those of a function's caller, as [`step_in_image`] returns them. Returns whether an interrupt left them.
/// Inlined, as what it returns would be moved.
#[inline(always)]
pub(crate) fn step_in_place<R: RvaMap, M: Memory>(
    functions: &ImageFunctions<'_, R>,
    plan: FunctionPlan<'_, '_>,
    stopped: Stopped<'_>,
    registers: &mut Registers,
    memory: &M,
) -> Result<bool, FrameError>
    ensures { StepsInImage functions.now.exceptions.now (R.offset functions.now.map.now)
        (M.word memory.now) (map unwind_view plan.entry.records.now) plan.entry.start
        stopped.entry.rva stopped.entry.code.now registers.old
        (changed_with result registers.new) }
{
    match epilog_at(plan, stopped) {
        Some(tail) => leave_in_place(functions, &tail, registers, memory),
        None => {
            let offset = stopped.rva.saturating_sub(plan.start);
            undo_function_in_place(plan.records, offset, registers, memory)
        }
    }
}

/// The registers of a function's caller, as [`step_out`](crate::step_out) returns them, in an image: where the rest of an epilog
/// ends with a jump to an RVA that a function of the image covers, that is run up to the jump, and from there on the records of
/// that function are undone, without its code. So the caller is right at the jumps between a function and its parts whose
/// records are not chained to it. Where no function covers the RVA, or its records cannot be read or are more than 32, the jump
/// leaves for a leaf function, as in `step_out`. One jump is followed, and none at its target.
///
/// Refused as `step_out`, at the target as [`step`](crate::step), and last `NotRising` if no interrupt left the caller and its
/// stack pointer is not above that of the function.
pub fn step_in_image<R: RvaMap, M: Memory>(
    functions: &ImageFunctions<'_, R>,
    plan: FunctionPlan<'_, '_>,
    stopped: Stopped<'_>,
    registers: Registers,
    memory: &M,
) -> Result<(Registers, bool), FrameError>
    ensures { StepsInImage functions.now.exceptions.now (R.offset functions.now.map.now)
        (M.word memory.now) (map unwind_view plan.entry.records.now) plan.entry.start
        stopped.entry.rva stopped.entry.code.now registers result }
{
    let mut current = registers;
    match step_in_place(functions, plan, stopped, &mut current, memory) {
        Ok(is_interrupted) => Ok((current, is_interrupted)),
        Err(error) => Err(error),
    }
}
