//! One step of a stack walk on x64: from the registers inside a function to those of its caller.
//!
//! A call pushes the return address. The prolog of the function then pushes nonvolatile registers (`UWOP_PUSH_NONVOL`),
//! allocates stack (`UWOP_ALLOC_SMALL`, `UWOP_ALLOC_LARGE`), may set a frame register (`UWOP_SET_FPREG`) and saves further
//! registers (`UWOP_SAVE_NONVOL`, `UWOP_SAVE_XMM128`). Its unwind codes stand in the reverse order, each with the offset
//! where its instruction ends, so that a caller that stopped inside of a prolog knows which have run
//! ([Microsoft's page](https://learn.microsoft.com/cpp/build/exception-handling-x64#unwind-procedure)).
//!
//! A step undoes the codes that have run, of the function's record and of those to which it is chained, and pops the return
//! address. An interrupt pushes no return address, but a machine frame (`UWOP_PUSH_MACHFRAME`), which has the stack pointer
//! and the instruction pointer. In an epilog the codes hold no longer: there a step runs what is left of it. A function
//! without a record is a leaf function, which has only the return address on the stack.

ghost use Rattle.std.specs.Prelude.{◌≡◌, ◌-◌, List, ◌∷◌, map, false, Ok};
ghost use Rattle.std.specs.Option.{option_map};
ghost use Rattle.pe_unwind.specs.UnwindRecord.{unwind_view};
ghost use Rattle.pe_frame.specs.Undoing.{popped};
ghost use Rattle.pe_frame.specs.declared.registers.Registers.{Registers};
ghost use Rattle.pe_frame.specs.Frames.{Part, infos, AreFrames, IsCaller};
ghost use Rattle.pe_frame.specs.Steps.{Steps, UndoesFunction, UndoesRecords, limit_of, registers_alone, rising};
ghost use Rattle.pe_frame.specs.Epilogs.{epilog_at, run_out, StepsWithCode, StepsOut};
ghost use Rattle.pe_frame.specs.InPlace.{changed, changed_with};
ghost use Rattle.pe_frame.specs.Tails.{instructions_of};

use crate::epilog::{Tail, execute_tail, tail_at};
use crate::error::FrameError;
use crate::memory::Memory;
use crate::plan::{FunctionPlan, Stopped};
use crate::record::enter;
use crate::registers::{RSP, Registers};
use crate::undo::pop;
use pe_unwind::UnwindInfo;

/// Up to which offset the codes of the first record have run. `None` after its prolog: all have.
fn limit_of(plan: &[UnwindInfo<'_>], offset: u32) -> Option<u32>
    ensures { result ≡ limit_of (map unwind_view plan.now) offset }
{
    if plan.is_empty() || u32::from(plan[0].size_of_prolog) <= offset {
        None
    } else {
        Some(offset)
    }
}

/// Makes the registers those where a function was entered: its records are undone, the first up to a limit and the others
/// whole. Returns whether an interrupt entered it.
#[inline(always)]
fn undo_records<M: Memory>(
    plan: &[UnwindInfo<'_>],
    limit: Option<u32>,
    registers: &mut Registers,
    memory: &M,
) -> Result<bool, FrameError>
    ensures { UndoesRecords (M.word memory.now) (map unwind_view plan.now) limit false registers.old
        (changed_with result registers.new) }
{
    let mut is_interrupted = false;
    let mut limit = limit;
    for info in plan {
        is_interrupted |= enter(info, limit, registers, memory)?;
        limit = None;
    }
    Ok(is_interrupted)
}

/// The registers of the caller, if its stack pointer is above this one.
pub(crate) fn rising(stack_pointer: u64, caller: Registers) -> Result<Registers, FrameError>
    ensures { result ≡ rising stack_pointer caller }
{
    let above = caller.general[RSP];
    if above <= stack_pointer {
        return Err(FrameError::NotRising(above));
    }
    Ok(caller)
}

/// Tests that the stack pointer of the caller is above this one.
pub(crate) fn require_rising(stack_pointer: u64, caller: &Registers) -> Result<(), FrameError>
    ensures { changed result caller.now ≡ rising stack_pointer caller.now }
{
    let above = caller.general[RSP];
    if above <= stack_pointer {
        return Err(FrameError::NotRising(above));
    }
    Ok(())
}

/// Makes the registers those of the caller, from those at an offset in a function. Returns whether an interrupt left them. Inlined
/// down to the codes, so that no result on the way is moved, and the loop over one record is none.
#[inline(always)]
pub(crate) fn undo_function_in_place<M: Memory>(
    plan: &[UnwindInfo<'_>],
    offset: u32,
    registers: &mut Registers,
    memory: &M,
) -> Result<bool, FrameError>
    ensures { UndoesFunction (M.word memory.now) (map unwind_view plan.now) offset registers.old
        (changed_with result registers.new) }
{
    let limit = limit_of(plan, offset);
    let stack_pointer = registers.general[RSP];
    if undo_records(plan, limit, registers, memory)? {
        return Ok(true);
    }
    pop(registers, memory)?;
    require_rising(stack_pointer, registers)?;
    Ok(false)
}

/// The registers of the caller after the rest of an epilog. No interrupt left them.
fn leave_function<M: Memory>(
    tail: &Tail<'_>,
    registers: Registers,
    memory: &M,
) -> Result<(Registers, bool), FrameError>
    ensures { result ≡ run_out (M.word memory.now) (instructions_of tail.now) registers }
{
    let mut current = registers;
    match run_out(tail, &mut current, memory) {
        Ok(is_interrupted) => Ok((current, is_interrupted)),
        Err(error) => Err(error),
    }
}

/// The registers of the caller, from those at an offset in a function, and whether an interrupt left them.
fn undo_function<M: Memory>(
    plan: &[UnwindInfo<'_>],
    offset: u32,
    registers: Registers,
    memory: &M,
) -> Result<(Registers, bool), FrameError>
    ensures { UndoesFunction (M.word memory.now) (map unwind_view plan.now) offset registers result }
{
    let mut current = registers;
    match undo_function_in_place(plan, offset, &mut current, memory) {
        Ok(is_interrupted) => Ok((current, is_interrupted)),
        Err(error) => Err(error),
    }
}

/// The registers alone.
pub(crate) fn registers_alone<R>(left: Result<(R, bool), FrameError>) -> Result<R, FrameError>
    ensures { result ≡ registers_alone left }
{
    match left {
        Ok((registers, _)) => Ok(registers),
        Err(error) => Err(error),
    }
}

/// The registers of the caller, from those at an offset in a function.
#[tactic(auto, using(crate::proofs::StepsOut::registers_of_step))]
fn caller<M: Memory>(
    plan: &[UnwindInfo<'_>],
    offset: u32,
    registers: Registers,
    memory: &M,
) -> Result<Registers, FrameError>
    ensures { Steps (M.word memory.now) (map unwind_view plan.now) offset registers result }
{
    registers_alone(undo_function(plan, offset, registers, memory))
}

/// What is left of an epilog where a function stopped. In the prolog there is none. Callers have no code, which is tested first:
/// that test is inlined, and the search is not.
#[tactic(auto, using(crate::proofs::NoCode::no_epilog_of))]
#[inline(always)]
pub(crate) fn epilog_at<'c>(plan: FunctionPlan<'_, '_>, stopped: Stopped<'c>) -> Option<Tail<'c>>
    ensures { option_map instructions_of result ≡ epilog_at
        (map unwind_view plan.entry.records.now) plan.entry.start
        stopped.entry.rva stopped.entry.code.now }
{
    let Stopped { rva, code } = stopped;
    if code.is_empty() {
        return None;
    }
    match limit_of(plan.records, rva.saturating_sub(plan.start)) {
        Some(_) => None,
        None => tail_at(plan, u64::from(rva) + code.len() as u64, code),
    }
}

/// Makes the registers those of the caller after the rest of an epilog. No interrupt left them.
pub(crate) fn run_out<M: Memory>(
    tail: &Tail<'_>,
    registers: &mut Registers,
    memory: &M,
) -> Result<bool, FrameError>
    ensures { changed_with result registers.new
        ≡ run_out (M.word memory.now) (instructions_of tail.now) registers.old }
{
    let stack_pointer = registers.general[RSP];
    execute_tail(tail, registers, memory)?;
    require_rising(stack_pointer, registers)?;
    Ok(false)
}

/// The registers of a function's caller, from those inside the function.
///
/// `plan` has the function's unwind records and its start, `rva` is the instruction pointer less the image base. At or after the
/// end of the prolog all codes of the first record are undone, inside of it those that end at or before `rva`. The records to
/// which it is chained are undone whole. Epilogs are not recognized: in one of them the result is wrong. [`step_with_code`]
/// recognizes them by the function's bytes.
///
/// **A walk.** In the top frame `rva` is the instruction that is about to run: look the function up by it. In each other frame
/// it is a return address, which may lie after the end of the function if the call is its last instruction: look up by
/// `rva - 1`, and pass `rva` to this call. After a machine frame, which `PushMachineFrame` of the root record shows, `rva` is
/// again the instruction that is about to run. Where no function covers the address, call [`leaf`]. The walk ends where the
/// caller's `rip` is 0 or lies in no image, or where a step is refused. As each step moves the stack pointer up it ends by
/// itself, except past machine frames, which may lead to another stack: bound the number of frames there.
///
/// Refused, in this order: for each record `Codes` if one of its codes is truncated or invalid, `Operation` if
/// `SetFPRegister` has run and the record has no frame register, `Address` if the frame register lies below its offset;
/// then for each operation in turn `Operation`, `Address` and `Memory` where they come up. After all records `Memory` and
/// `Address` for the return address, and last `NotRising`. Nothing is popped, nor is the stack pointer compared, if a machine
/// frame was undone.
pub fn step<M: Memory>(
    plan: FunctionPlan<'_, '_>,
    rva: u32,
    registers: Registers,
    memory: &M,
) -> Result<Registers, FrameError>
    ensures exact { Steps (M.word memory.now)
        (map unwind_view plan.entry.records.now) (rva - plan.entry.start) registers result }
    ensures undoes { (p : Part) (parts : List Part) →
        map unwind_view plan.entry.records.now ≡ infos (p ∷ parts) → AreFrames (M.word memory.now) (p ∷ parts)
        (limit_of (infos (p ∷ parts)) (rva - plan.entry.start)) registers →
        (u : Registers) × (result ≡ Ok u)
        × IsCaller (p ∷ parts) (limit_of (infos (p ∷ parts)) (rva - plan.entry.start)) registers u }
{
    let offset = rva.saturating_sub(plan.start);
    caller(plan.records, offset, registers, memory)
}

/// The registers of a function's caller, as [`step_with_code`] returns them, and whether an interrupt left them: a machine
/// frame was undone, as none is in an epilog. Then `rip` is that of the instruction that is about to run, and no return address.
pub fn step_out<M: Memory>(
    plan: FunctionPlan<'_, '_>,
    stopped: Stopped<'_>,
    registers: Registers,
    memory: &M,
) -> Result<(Registers, bool), FrameError>
    ensures { StepsOut (M.word memory.now) (map unwind_view plan.entry.records.now)
        plan.entry.start stopped.entry.rva stopped.entry.code.now registers result }
{
    match epilog_at(plan, stopped) {
        Some(tail) => leave_function(&tail, registers, memory),
        None => {
            let offset = stopped.rva.saturating_sub(plan.start);
            undo_function(plan.records, offset, registers, memory)
        }
    }
}

/// The registers of a function's caller, from those inside the function, in its epilogs too.
///
/// As [`step`], with the function's bytes from `rva` to its end. After the prolog, if they start with what is left of an epilog,
/// that is run in place of undoing codes: what frees the stack, then at most 16 pops, then the instruction that leaves the
/// function.
///
/// | instruction | bytes |
/// |---|---|
/// | `add rsp, n`, for n from 0 on | 48 83 C4 ib, 48 81 C4 id |
/// | `lea rsp, [register + n]`, by the frame register of the first record | 48 or 49, 8D, ModRM with mode 1 or 2, for r12 the SIB byte 24, ib or id |
/// | `pop register`, of any but rsp | 58 + r, 41 58 + r |
/// | `ret`, `ret n` | C3, F3 C3, C2 iw |
/// | `jmp` to an RVA outside of the function, or to its start | EB ib, E9 id |
/// | `jmp` by a register or memory, with REX.W, which marks it as one that leaves | 48 to 4F, FF /4 |
/// | `jmp` by an import | FF 25 id |
/// | `jmp` by a register or plain memory, after one of the first three lines | FF /4, 41 FF /4, with mode 0 or 3 |
///
/// The function is the bytes from its start to the end of its code, and the entries to which its records are chained: a jump into
/// one of them does not leave it, except to the start of the last, or to its own where there is none: there the function calls
/// itself in place of returning. Any other jump by a register or memory counts as that of a switch, which stays in it. The
/// function to which a jump leaves is taken for one that has just been entered: [`step_in_image`](crate::step_in_image) looks it
/// up.
/// Where the bytes are anything else, this call is `step`. Call it in the top frame, and in one
/// that an interrupt stopped. In every other frame `rva` is a return address, where no epilog has begun: call `step`.
///
/// Refused in an epilog: for each instruction in turn `Memory` and `Address` where they come up, and last `NotRising`. Else as
/// `step`.
#[tactic(auto, using(crate::proofs::StepsOut::registers_of_step_with_code))]
pub fn step_with_code<M: Memory>(
    plan: FunctionPlan<'_, '_>,
    stopped: Stopped<'_>,
    registers: Registers,
    memory: &M,
) -> Result<Registers, FrameError>
    ensures { StepsWithCode (M.word memory.now) (map unwind_view plan.entry.records.now)
        plan.entry.start stopped.entry.rva stopped.entry.code.now registers result }
{
    registers_alone(step_out(plan, stopped, registers, memory))
}

/// The registers of the caller of a leaf function: one without unwind data, which changes no nonvolatile register and leaves
/// the stack pointer at the return address.
///
/// `Memory` if the return address is not known, `Address` if it is the last word below 2^64.
pub fn leaf<M: Memory>(registers: Registers, memory: &M) -> Result<Registers, FrameError>
    ensures { result ≡ popped (M.word memory.now) registers }
{
    let mut caller = registers;
    pop(&mut caller, memory)?;
    Ok(caller)
}
