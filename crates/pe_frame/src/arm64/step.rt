//! One step of a stack walk on ARM64.

ghost use Rattle.std.specs.Prelude.{◌≡◌, ℕ, ◌-◌, ◌/◌, true, false, All, List, Ok, Some};
ghost use Rattle.pe_unwind.specs.Arm64Record.{info_view};
ghost use Rattle.pe_frame.specs.declared.arm64.registers.Arm64Registers.{Arm64Registers};
ghost use Rattle.pe_unwind.specs.declared.arm64.codes.Arm64UnwindCode.{Arm64UnwindCode};
ghost use Rattle.pe_frame.specs.Arm64Operations.{is_save_next};
ghost use Rattle.pe_frame.specs.Arm64Undoing.{caller_by_list, caller_by_codes, left_arm64, returned_arm64, link_register, put_pc};
ghost use Rattle.pe_frame.specs.Arm64Steps.{CodesThen, AreOver, ran_arm64, Leaves, StepsArm64, StepsOutArm64};
ghost use Rattle.pe_frame.specs.Arm64Reading.{StepsIn};
ghost use Rattle.pe_frame.specs.Arm64Packed.{packed_left, left_after, is_canonical, stepped_arm64_packed};
ghost use Rattle.pe_frame.specs.Arm64Frames.{Arm64Part, IsArm64Frame, effects_at};
ghost use Rattle.pe_frame.specs.Arm64Machine.{IsArm64Caller};

use super::entry::{Arm64Entry, entry_of};
use super::epilog::{
    Arm64Epilog, EpilogRange, SIZE_OF_INSTRUCTION, codes_from, epilog_after, epilog_start,
    is_in_epilog,
};
use super::packed::{epilog_codes, has_ended, is_canonical, packed_codes, packed_length};
use super::record::{after_codes, prolog_length, require_codes, undo_codes, undo_each};
use super::registers::{Arm64Registers, LINK_REGISTER};
use crate::error::FrameError;
use crate::frame::registers_alone;
use crate::memory::Memory;
use pe_unwind::{Arm64RuntimeFunction, Arm64UnwindCode, Arm64UnwindInfo};

/// The registers of the caller, from those at the function's entry, if its stack pointer is not below this one.
fn returned_arm64(stack_pointer: u64, entry: Arm64Registers) -> Result<Arm64Registers, FrameError>
    ensures { result ≡ returned_arm64 stack_pointer entry }
{
    if entry.sp < stack_pointer {
        return Err(FrameError::NotRising(entry.sp));
    }
    Ok(leaf_arm64(entry))
}

/// The same by how the function was entered, and whether no call left the caller.
fn leave_arm64(
    stack_pointer: u64,
    entry: Arm64Entry,
    registers: Arm64Registers,
) -> Result<(Arm64Registers, bool), FrameError>
    ensures { result ≡ left_arm64 stack_pointer entry registers }
{
    if entry.has_pc {
        return Ok((registers, true));
    }
    Ok((
        returned_arm64(stack_pointer, registers)?,
        entry.is_interrupt,
    ))
}

/// The registers of the caller, where these codes are left to be undone, and whether no call left them. None of the codes is
/// truncated.
fn caller_by_codes<M: Memory>(
    codes: &[u8],
    registers: Arm64Registers,
    memory: &M,
) -> Result<(Arm64Registers, bool), FrameError>
    ensures { (cs : List Arm64UnwindCode) → CodesThen AreOver codes.now cs →
        result ≡ caller_by_codes (M.word memory.now) cs registers }
{
    let undone = undo_codes(codes, registers, memory)?;
    leave_arm64(registers.sp, entry_of(codes), undone)
}

/// The registers of the caller after the prolog, if the instruction pointer may be in this epilog.
fn caller_after<M: Memory>(
    info: &Arm64UnwindInfo<'_>,
    epilog: Arm64Epilog,
    place: u32,
    registers: Arm64Registers,
    memory: &M,
) -> Result<(Arm64Registers, bool), FrameError>
    ensures { (cs : List Arm64UnwindCode) → CodesThen AreOver (info_view info.now).codes cs →
        StepsIn (M.word memory.now) (info_view info.now) place cs (Some epilog) registers result }
{
    let codes = info.code_bytes();
    let rest = codes_from(codes, epilog.index);
    require_codes(rest, epilog.index as usize)?;
    let length = prolog_length(rest);
    let count = info.header.function_length() / SIZE_OF_INSTRUCTION;
    let start = epilog_start(count, epilog.start, length);
    if is_in_epilog(place as usize, EpilogRange { start, length }) {
        let left = after_codes(rest, (place as usize).saturating_sub(start));
        return caller_by_codes(left, registers, memory);
    }
    caller_by_codes(codes, registers, memory)
}

/// The registers of the caller, where so many instructions of the function are before the instruction pointer.
pub(crate) fn caller<M: Memory>(
    info: &Arm64UnwindInfo<'_>,
    place: u32,
    registers: Arm64Registers,
    memory: &M,
) -> Result<(Arm64Registers, bool), FrameError>
    ensures { StepsOutArm64 (M.word memory.now) (info_view info.now) place registers result }
{
    let codes = info.code_bytes();
    require_codes(codes, 0)?;
    let length = prolog_length(codes);
    match epilog_after(info, place, length) {
        Some(epilog) => caller_after(info, epilog, place, registers, memory),
        None => {
            let left = after_codes(codes, length.saturating_sub(place as usize));
            caller_by_codes(left, registers, memory)
        }
    }
}

/// The registers of a function's caller, from those inside the function, by its unwind record, and whether no call left them:
/// an interrupt did, or the operating system, as its codes say. Look the function of such a caller up by its instruction pointer.
///
/// As [`step_arm64`], which says what is refused.
pub fn step_out_arm64<M: Memory>(
    function: &Arm64RuntimeFunction,
    info: &Arm64UnwindInfo<'_>,
    rva: u32,
    registers: Arm64Registers,
    memory: &M,
) -> Result<(Arm64Registers, bool), FrameError>
    ensures { StepsOutArm64 (M.word memory.now)
        (info_view info.now) ((rva - function.now.begin_address) / 4) registers result }
{
    let offset = rva.saturating_sub(function.begin_address);
    caller(info, offset / SIZE_OF_INSTRUCTION, registers, memory)
}

/// The registers of a function's caller, from those inside the function, by its unwind record.
///
/// `function` is the entry of the function table that lookup found, of which the step takes the start; `info` is its record,
/// and `rva` the instruction pointer less the image base. After the prolog all codes of the record are undone, inside of it
/// those of the instructions before `rva`. In an epilog that the record describes, and at its return, the codes of the
/// epilog are undone whose instructions have not run: it is the last scope that starts at or before `rva`, or the only
/// epilog, at the end of the function. The caller goes on at the link register; `pac_sign_lr` takes its signature off, down
/// to the 48 bits of an address, of which bit 55 says what the others are. A machine frame and a `CONTEXT` record have the
/// caller's instruction pointer themselves; [`step_out_arm64`] says of which callers.
///
/// **A walk.** In the top frame `rva` is the instruction that is about to run: look the function up by it. In each other frame
/// it is a return address, which may lie after the end of the function if the call is its last instruction: look up by
/// `rva - 4`, and pass `rva` to this call. Where no function covers the address, call [`leaf_arm64`], in the top frame alone.
/// The walk ends where the caller's `pc` is 0 or lies in no image, or where a step is refused. A step may leave the stack
/// pointer where it is, in the top frame, before the prolog has moved it. End the walk where it does so in any other frame: a
/// function that calls has stored the link register.
///
/// Refused, in this order: `Codes` if one of the codes up to the first `end` is truncated, or after the prolog one of those of the
/// epilog; for each code in turn `Arm64Code`
/// if it is not undone, then `Address` and `Memory` where they come up; last `NotRising` if the caller's stack pointer is
/// below this one, unless a code of a machine frame or a context restored both pointers. These codes are not undone: of the frames
/// of the operating system's own (`CustomStack`) `TrapFrame` and `EcContext`, `AllocZ`, `SaveZReg`, `SavePReg`, a preindexed
/// `SaveAnyReg`, reserved codes, those that save a register after x30 or d15, by `SaveAnyReg` after x30 or v31, and `SaveNext`
/// unless the first code after it that is another one saves a pair.
#[tactic(auto, using(crate::proofs::Arm64Streams::registers_of_arm64_step))]
pub fn step_arm64<M: Memory>(
    function: &Arm64RuntimeFunction,
    info: &Arm64UnwindInfo<'_>,
    rva: u32,
    registers: Arm64Registers,
    memory: &M,
) -> Result<Arm64Registers, FrameError>
    ensures exact { StepsArm64 (M.word memory.now)
        (info_view info.now) ((rva - function.now.begin_address) / 4) registers result }
    ensures undoes { (p : Arm64Part) (stand : ℕ) →
        Leaves (info_view info.now) ((rva - function.now.begin_address) / 4)
        (Ok (ran_arm64 stand p.codes)) →
        IsArm64Frame p stand (M.word memory.now) registers →
        (u : Arm64Registers) × (result ≡ Ok u)
        × IsArm64Caller (effects_at stand p) p.entry registers u }
{
    registers_alone(step_out_arm64(function, info, rva, registers, memory))
}

/// The registers of the caller, where these codes are left to be undone, none of which is `save_next`.
fn caller_by_list<M: Memory>(
    codes: &[Arm64UnwindCode],
    registers: Arm64Registers,
    memory: &M,
) -> Result<Arm64Registers, FrameError>
    requires { All (λ c. is_save_next c ≡ false) codes.now }
    ensures { result ≡ caller_by_list (M.word memory.now) codes.now registers }
{
    returned_arm64(registers.sp, undo_each(codes, registers, memory)?)
}

/// The registers of the caller after the prolog of a function with packed unwind data, whose codes these are.
fn packed_caller_after<M: Memory>(
    function: &Arm64RuntimeFunction,
    codes: &[Arm64UnwindCode],
    place: u32,
    registers: Arm64Registers,
    memory: &M,
) -> Result<Arm64Registers, FrameError>
    requires canonical { is_canonical function.now.unwind_data ≡ true }
    requires alone { All (λ c. is_save_next c ≡ false) codes.now }
    ensures { result ≡ caller_by_list (M.word memory.now)
        (left_after function.now.unwind_data place codes.now) registers }
{
    let list = epilog_codes(function);
    let of_epilog = list.as_slice();
    let count = function.function_length() / SIZE_OF_INSTRUCTION;
    let start = epilog_start(count, None, of_epilog.len());
    let range = EpilogRange {
        start,
        length: of_epilog.len(),
    };
    if is_in_epilog(place as usize, range) {
        let left = &of_epilog[(place as usize).saturating_sub(start)..];
        return caller_by_list(left, registers, memory);
    }
    caller_by_list(codes, registers, memory)
}

/// The registers of the caller, where so many instructions of a function with packed unwind data are before the instruction
/// pointer.
pub(crate) fn packed_caller<M: Memory>(
    function: &Arm64RuntimeFunction,
    place: u32,
    registers: Arm64Registers,
    memory: &M,
) -> Result<Arm64Registers, FrameError>
    ensures { result ≡ stepped_arm64_packed
        (M.word memory.now) function.now.unwind_data place registers }
{
    if !is_canonical(function) {
        return Err(FrameError::Packed(function.unwind_data));
    }
    let list = packed_codes(function);
    let codes = list.as_slice();
    let length = packed_length(function, codes.len());
    if has_ended(function, length, place) {
        return packed_caller_after(function, codes, place, registers, memory);
    }
    let left = length.saturating_sub(place as usize);
    caller_by_list(&codes[left..], registers, memory)
}

/// The registers of a function's caller, from those inside the function, by its packed unwind data: those of an entry of the
/// function table whose `flag` is 1 or 2.
///
/// The data stand for a canonical prolog, and the same backwards at the end of the function. They are undone as [`step_arm64`]
/// does it by a record with the codes of these: after the prolog all of its codes, inside of it those of the instructions before
/// `rva`, in the epilog those of its instructions that have not run. A fragment, whose `flag` is 2, has neither of its own.
/// `rva` is the instruction pointer less the image base; how a walk looks functions up is said at `step_arm64`.
///
/// Refused, in this order: `Packed` if the data have no canonical prolog, that is, a `flag` of 0 or 3, more than ten integer
/// registers, or a frame smaller than what is saved in it; `Address` and `Memory` where they come up; last `NotRising` if the caller's stack pointer is below this one.
pub fn step_arm64_packed<M: Memory>(
    function: &Arm64RuntimeFunction,
    rva: u32,
    registers: Arm64Registers,
    memory: &M,
) -> Result<Arm64Registers, FrameError>
    ensures exact { result ≡ stepped_arm64_packed (M.word memory.now) function.now.unwind_data
        ((rva - function.now.begin_address) / 4) registers }
    ensures undoes { (p : Arm64Part) (stand : ℕ) →
        packed_left function.now.unwind_data ((rva - function.now.begin_address) / 4)
        ≡ ran_arm64 stand p.codes →
        is_canonical function.now.unwind_data ≡ true →
        IsArm64Frame p stand (M.word memory.now) registers →
        (u : Arm64Registers) × (result ≡ Ok u)
        × IsArm64Caller (effects_at stand p) p.entry registers u }
{
    let offset = rva.saturating_sub(function.begin_address);
    packed_caller(function, offset / SIZE_OF_INSTRUCTION, registers, memory)
}

/// The registers of the caller of a leaf function: one without an entry in the function table, which changes neither the stack
/// pointer nor a register that a function preserves. The caller goes on at the link register.
pub fn leaf_arm64(registers: Arm64Registers) -> Arm64Registers
    ensures { result ≡ put_pc registers (link_register registers) }
{
    let mut caller = registers;
    caller.pc = registers.general[LINK_REGISTER];
    caller
}
