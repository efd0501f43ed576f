//! Epilogs: what is left of one, by the bytes at the instruction pointer.
//!
//! An epilog frees the stack that the prolog allocated (`add rsp, n`, or `lea rsp, [register + n]` in a function with a frame
//! register), pops the registers that it pushed and returns, or jumps to another function, which returns in its place. Inside
//! of one the unwind codes do not hold any more. [Microsoft's page](https://learn.microsoft.com/cpp/build/prolog-and-epilog)
//! allows no other form, so that an unwinder can tell an epilog by its bytes and run the rest of it.
//!
//! A jump by a register or memory may be that of a switch, which stays in the function. One that leaves has REX.W before it,
//! which means nothing else there.

ghost use Rattle.std.specs.Prelude.{◌≡◌, ◌+◌, ◌≤◌, length, map, slice_index, IfSome, Some};
ghost use Rattle.std.specs.Option.{option_map};
ghost use Rattle.pe_unwind.specs.UnwindRecord.{unwind_view};
ghost use Rattle.pe_frame.specs.declared.epilog.Instruction.TheVariants.{Pop};
ghost use Rattle.pe_frame.specs.Epilogs.{widened, moved, operand, add_at, lea_at, trim_at, pop_of, pop_at, popped_first, most_pops, after_pops, jump_of, jump_by_operand, marked_by, marked_jump, unmarked_jump, is_return, return_number, jump_at, exit_at, restores, lies_in_parents, function_start, leaves, frame_register_of, with_rest, tail_at, executed, executed_all};
ghost use Rattle.pe_frame.specs.Jumps.{before_last, target_of};
ghost use Rattle.pe_frame.specs.Undoing.{put_register};
ghost use Rattle.pe_frame.specs.Tails.{alone, instructions_of};
ghost use Rattle.pe_frame.specs.InPlace.{changed};

use crate::error::FrameError;
use crate::memory::Memory;
use crate::plan::FunctionPlan;
use crate::registers::{RSP, Registers};
use crate::undo::{INTEGER_REGISTERS, pop, pop_and_drop, raise, undo};
use pe_core::{u8_at, u16_at, u32_at};
use pe_unwind::{Register, UnwindInfo, UnwindOperation};

/// `add rsp, n` before its number, of one byte and of four.
const ADD_IMM8: [u8; 3] = [0x48, 0x83, 0xC4];

const ADD_IMM32: [u8; 3] = [0x48, 0x81, 0xC4];

/// REX.W, to which B adds one for the registers r8 to r15; the opcode of `lea`; ModRM with rsp as the destination, for a
/// number of one byte and of four; and the SIB byte of r12.
const REX_W: u8 = 0x48;

const LEA: u8 = 0x8D;

const MODRM_DISP8: u8 = 0x60;

const MODRM_DISP32: u8 = 0xA0;

const SIB_R12: u8 = 0x24;

/// The number of r12, whose last three bits are those of rsp: in ModRM they say that a SIB byte follows.
const R12: u8 = 12;

/// The opcode of `pop` for the first of eight registers, that of rsp, the byte after the last, and REX.B, which is before it
/// for r8 to r15.
const POP: u8 = 0x58;

const POP_RSP: u8 = 0x5C;

const POP_END: u8 = 0x60;

const REX_B: u8 = 0x41;

/// `ret`, after `rep` and after `bnd`, and `ret n` before its number, after `bnd` too.
const RET: [u8; 1] = [0xC3];

const REP_RET: [u8; 2] = [0xF3, 0xC3];

const BND_RET: [u8; 2] = [0xF2, 0xC3];

const RET_IMM16: [u8; 1] = [0xC2];

const BND_RET_IMM16: [u8; 2] = [0xF2, 0xC2];

/// `jmp` before its number, of one byte and of four.
const JMP_REL8: [u8; 1] = [0xEB];

const JMP_REL32: [u8; 1] = [0xE9];

/// The opcode of `jmp` by an operand before its ModRM byte, in which /4 says that it is a jump; and `jmp [rip + n]`.
const JMP: u8 = 0xFF;

const JMP_DIGIT: u8 = 4;

const JMP_RIP: [u8; 2] = [0xFF, 0x25];

/// The byte after the last with REX.W.
const REX_W_END: u8 = 0x50;

/// The least numbers of one byte and of four that are negative, and what widens them to 64 bits.
const NEGATIVE8: u8 = 0x80;

const NEGATIVE32: u32 = 0x8000_0000;

const HIGH_BITS8: u64 = 0xFFFF_FFFF_FFFF_FF00;

const HIGH_BITS32: u64 = 0xFFFF_FFFF_0000_0000;

/// How many pops an epilog has at most: one for each integer register. So a step reads few bytes of code, whatever they are.
const MOST_POPS: usize = 16;

/// An instruction of an epilog.
#[derive(Clone, Copy)]
pub(crate) enum Instruction {
    /// `add rsp, n`.
    Add(u32),
    /// `lea rsp, [register + n]`, with its number widened to 64 bits.
    Lea(u8, u64),
    /// `pop register`.
    Pop(u8),
    /// `ret n`, and `ret`, where it is 0.
    Return(u16),
    /// `jmp` to an RVA, of which the other bits of an address may be set.
    Jump(u64),
    /// `jmp` by an address in a register or memory.
    JumpByOperand,
}

/// What is left of an epilog.
#[derive(Clone, Copy)]
pub(crate) struct Tail<'a> {
    /// The instruction that frees the stack, if it has not run.
    trim: Option<Instruction>,
    /// The code after it, which pops registers first.
    pops: &'a [u8],
    /// The instruction after the pops, which leaves the function.
    exit: Instruction,
}

/// A number of one byte in two's complement, widened.
fn widened8(number: u8) -> u64
    ensures { result ≡ widened 8 number }
{
    if number < NEGATIVE8 {
        u64::from(number)
    } else {
        u64::from(number) + HIGH_BITS8
    }
}

/// A number of four bytes in two's complement, widened.
pub(crate) fn widened32(number: u32) -> u64
    ensures { result ≡ widened 32 number }
{
    if number < NEGATIVE32 {
        u64::from(number)
    } else {
        u64::from(number) + HIGH_BITS32
    }
}

/// The byte after an opcode, if the code starts with that opcode.
#[tactic(auto, unfolding(crate::specs::Epilogs::operand))]
fn byte_after(opcode: &[u8], code: &[u8]) -> Option<u8>
    ensures value { result ≡ operand opcode.now 1 code.now }
    ensures fits { IfSome result (λ _. length opcode.now + 1 ≤ length code.now) }
{
    if code.starts_with(opcode) {
        u8_at(code, opcode.len()).ok()
    } else {
        None
    }
}

/// The number of two bytes after an opcode, if the code starts with that opcode.
#[tactic(auto, unfolding(crate::specs::Epilogs::operand))]
fn u16_after(opcode: &[u8], code: &[u8]) -> Option<u16>
    ensures { result ≡ operand opcode.now 2 code.now }
{
    if code.starts_with(opcode) {
        u16_at(code, opcode.len()).ok()
    } else {
        None
    }
}

/// The number of four bytes after an opcode, if the code starts with that opcode.
#[tactic(auto, unfolding(crate::specs::Epilogs::operand))]
fn u32_after(opcode: &[u8], code: &[u8]) -> Option<u32>
    ensures value { result ≡ operand opcode.now 4 code.now }
    ensures fits { IfSome result (λ _. length opcode.now + 4 ≤ length code.now) }
{
    if code.starts_with(opcode) {
        u32_at(code, opcode.len()).ok()
    } else {
        None
    }
}

/// `add rsp, n` with a number that is not negative, and its size.
#[tactic(auto, unfolding(crate::specs::Epilogs::add_at))]
fn add_at(code: &[u8]) -> Option<(Instruction, usize)>
    ensures value { result ≡ add_at code.now }
    ensures fits { IfSome result (λ found. found.1 ≤ length code.now) }
{
    if let Some(number) = byte_after(&ADD_IMM8, code) {
        return if number < NEGATIVE8 {
            Some((Instruction::Add(u32::from(number)), 4))
        } else {
            None
        };
    }
    match u32_after(&ADD_IMM32, code) {
        Some(number) if number < NEGATIVE32 => Some((Instruction::Add(number), 7)),
        _ => None,
    }
}

/// `lea rsp, [register + n]` by the frame register, and its size.
#[tactic(auto, unfolding(crate::specs::Epilogs::lea_at))]
fn lea_at(register: u8, code: &[u8]) -> Option<(Instruction, usize)>
    ensures value { result ≡ lea_at register code.now }
    ensures fits { IfSome result (λ found. found.1 ≤ length code.now) }
{
    if register == 0 || usize::from(register) == RSP || register >= INTEGER_REGISTERS {
        return None;
    }
    let size = if register == R12 { 4 } else { 3 };
    let (rex, low) = (REX_W + register / 8, register % 8);
    let near = [rex, LEA, MODRM_DISP8 + low, SIB_R12];
    if let Some(number) = byte_after(&near[..size], code) {
        return Some((Instruction::Lea(register, widened8(number)), size + 1));
    }
    let far = [rex, LEA, MODRM_DISP32 + low, SIB_R12];
    match u32_after(&far[..size], code) {
        Some(number) => Some((Instruction::Lea(register, widened32(number)), size + 4)),
        None => None,
    }
}

/// The instruction that frees the stack, and its size.
fn trim_at(register: u8, code: &[u8]) -> Option<(Instruction, usize)>
    ensures value { result ≡ trim_at register code.now }
    ensures fits { IfSome result (λ found. found.1 ≤ length code.now) }
{
    match add_at(code) {
        Some(found) => Some(found),
        None => lea_at(register, code),
    }
}

/// The register of a pop by its last byte, and the size of the pop. `high` is 8 after REX.B. rsp is never popped.
fn pop_of(high: u8, size: usize, byte: u8) -> Option<(u8, usize)>
    requires { high ≤ 8 }
    ensures { result ≡ pop_of high size byte }
{
    if POP <= byte && byte < POP_END && high + byte != POP_RSP {
        Some((high + (byte - POP), size))
    } else {
        None
    }
}

/// The register of a pop, and the size of the pop.
#[tactic(auto, unfolding(crate::specs::Epilogs::pop_at))]
fn pop_at(code: &[u8]) -> Option<(u8, usize)>
    ensures value { result ≡ pop_at code.now }
    ensures fits { IfSome result (λ found. found.1 ≤ length code.now) }
{
    if let Some(byte) = byte_after(&[REX_B], code) {
        return pop_of(8, 2, byte);
    }
    match byte_after(&[], code) {
        Some(byte) => pop_of(0, 1, byte),
        None => None,
    }
}

/// The code after the pops with which it starts.
fn after_pops(code: &[u8]) -> &[u8]
    ensures { result.now ≡ after_pops most_pops code.now }
{
    let mut rest = code;
    for _ in 0..MOST_POPS {
        match pop_at(rest) {
            Some((_, size)) => rest = &rest[size..],
            None => return rest,
        }
    }
    rest
}

/// A jump of so many bytes, by a number that counts from its end. The code ends at an RVA.
fn jump_of(end: u64, code: &[u8], size: u8, number: u64) -> Instruction
    ensures { Some result ≡ jump_of end code.now size number }
{
    let start = end.saturating_sub(code.len() as u64);
    Instruction::Jump(start.wrapping_add(u64::from(size)).wrapping_add(number))
}

/// A jump by an operand, by its ModRM byte.
fn jump_by_operand(byte: u8) -> Option<Instruction>
    ensures { result ≡ jump_by_operand byte }
{
    if byte / 8 % 8 == JMP_DIGIT {
        Some(Instruction::JumpByOperand)
    } else {
        None
    }
}

/// A jump by an operand after REX.W, which marks one that leaves the function.
#[tactic(auto, unfolding(crate::specs::Epilogs::marked_jump))]
fn marked_jump(code: &[u8]) -> Option<Instruction>
    ensures { result ≡ marked_jump code.now }
{
    match byte_after(&[], code) {
        Some(rex) if REX_W <= rex && rex < REX_W_END => match byte_after(&[rex, JMP], code) {
            Some(byte) => jump_by_operand(byte),
            None => None,
        },
        _ => None,
    }
}

/// A jump by an operand without that mark: by the address of an import, or where an instruction before it freed stack or
/// popped a register, as none does before the jump of a switch.
#[tactic(auto, unfolding(crate::specs::Epilogs::unmarked_jump))]
fn unmarked_jump(restored: bool, code: &[u8]) -> Option<Instruction>
    ensures { result ≡ unmarked_jump restored code.now }
{
    if code.starts_with(&JMP_RIP) {
        return Some(Instruction::JumpByOperand);
    }
    if !restored {
        return None;
    }
    if let Some(byte) = byte_after(&[JMP], code) {
        return jump_by_operand(byte);
    }
    match byte_after(&[REX_B, JMP], code) {
        Some(byte) => jump_by_operand(byte),
        None => None,
    }
}

/// A jump, by the RVA where the code ends.
#[tactic(auto, unfolding(crate::specs::Epilogs::jump_at))]
fn jump_at(restored: bool, end: u64, code: &[u8]) -> Option<Instruction>
    ensures { result ≡ jump_at restored end code.now }
{
    if let Some(number) = byte_after(&JMP_REL8, code) {
        return Some(jump_of(end, code, 2, widened8(number)));
    }
    if let Some(number) = u32_after(&JMP_REL32, code) {
        return Some(jump_of(end, code, 5, widened32(number)));
    }
    match marked_jump(code) {
        Some(jump) => Some(jump),
        None => unmarked_jump(restored, code),
    }
}

/// Whether the code starts with a return without a number.
fn is_return(code: &[u8]) -> bool
    ensures { result ≡ is_return code.now }
{
    code.starts_with(&RET) || code.starts_with(&REP_RET) || code.starts_with(&BND_RET)
}

/// The number of a return that has one.
#[tactic(auto, unfolding(crate::specs::Epilogs::return_number))]
fn return_number(code: &[u8]) -> Option<u16>
    ensures { result ≡ return_number code.now }
{
    match u16_after(&RET_IMM16, code) {
        Some(number) => Some(number),
        None => u16_after(&BND_RET_IMM16, code),
    }
}

/// The instruction with which an epilog ends, by the RVA where the code ends, and whether one before it freed stack or popped
/// a register.
#[tactic(auto, unfolding(crate::specs::Epilogs::exit_at))]
fn exit_at(restored: bool, end: u64, code: &[u8]) -> Option<Instruction>
    ensures { result ≡ exit_at restored end code.now }
{
    if is_return(code) {
        return Some(Instruction::Return(0));
    }
    match return_number(code) {
        Some(number) => Some(Instruction::Return(number)),
        None => jump_at(restored, end, code),
    }
}

/// Whether an RVA lies in an entry to which one of the records is chained.
fn lies_in_parents(plan: &[UnwindInfo<'_>], rva: u64) -> bool
    ensures { result ≡ lies_in_parents (map unwind_view plan.now) rva }
{
    for info in plan {
        if let Some(parent) = info.chained_info {
            if u64::from(parent.begin_address) <= rva && rva < u64::from(parent.end_address) {
                return true;
            }
        }
    }
    false
}

/// The RVA where the function starts, of which the first record may be that of a part.
fn function_start(plan: FunctionPlan<'_, '_>) -> u32
    ensures { result ≡ function_start plan.entry.start
        (map unwind_view plan.entry.records.now) }
{
    let mut found = plan.start;
    for info in plan.records {
        if let Some(parent) = info.chained_info {
            found = parent.begin_address;
        }
    }
    found
}

/// Whether an instruction leaves the function: a jump to an RVA may stay in it. One to its start calls it anew.
fn leaves(plan: FunctionPlan<'_, '_>, end: u64, instruction: Instruction) -> bool
    ensures { result ≡ leaves (map unwind_view plan.entry.records.now)
        plan.entry.start end instruction }
{
    let FunctionPlan { start, records } = plan;
    match instruction {
        Instruction::Jump(rva) => {
            rva == u64::from(function_start(plan))
                || !(u64::from(start) <= rva && rva < end || lies_in_parents(records, rva))
        }
        _ => true,
    }
}

/// The number of the frame register of the first record, 0 for none.
fn frame_register_of(plan: &[UnwindInfo<'_>]) -> u8
    ensures { result ≡ frame_register_of (map unwind_view plan.now) }
{
    if plan.is_empty() {
        0
    } else {
        plan[0].frame_register.0
    }
}

/// Whether an instruction freed stack, or the code starts with a pop.
fn restores(trim: Option<Instruction>, code: &[u8]) -> bool
    ensures { result ≡ restores (alone trim) code.now }
{
    match trim {
        Some(_) => true,
        None => pop_at(code).is_some(),
    }
}

/// What is left of an epilog after the instruction that frees the stack.
fn with_rest<'c>(
    plan: FunctionPlan<'_, '_>,
    end: u64,
    trim: Option<Instruction>,
    code: &'c [u8],
) -> Option<Tail<'c>>
    ensures { option_map instructions_of result ≡ with_rest
        (map unwind_view plan.entry.records.now) plan.entry.start end (alone trim) code.now }
{
    match exit_at(restores(trim, code), end, after_pops(code)) {
        Some(exit) if leaves(plan, end, exit) => Some(Tail {
            trim,
            pops: code,
            exit,
        }),
        _ => None,
    }
}

/// What is left of an epilog where the code starts, if it is in one. The function ends at this RVA. Out of line, as few frames are
/// in an epilog.
#[inline(never)]
#[tactic(auto, using(std::proofs::lemmas::List::take_rest))]
pub(crate) fn tail_at<'c>(plan: FunctionPlan<'_, '_>, end: u64, code: &'c [u8]) -> Option<Tail<'c>>
    ensures { option_map instructions_of result ≡ tail_at
        (map unwind_view plan.entry.records.now) plan.entry.start end code.now }
{
    match trim_at(frame_register_of(plan.records), code) {
        Some((trim, size)) => with_rest(plan, end, Some(trim), &code[size..]),
        None => with_rest(plan, end, None, code),
    }
}

/// Moves the stack pointer so far from a register, of which each `lea` names one that there is.
fn load(register: u8, number: u64, registers: &mut Registers)
    ensures { registers.new ≡ put_register registers.old 4
        (moved (slice_index registers.old.general register) number) }
{
    let value = match registers.general.get(usize::from(register)) {
        Some(value) => *value,
        None => 0,
    };
    registers.general[RSP] = value.wrapping_add(number);
}

/// Runs an instruction.
fn execute<M: Memory>(
    instruction: Instruction,
    registers: &mut Registers,
    memory: &M,
) -> Result<(), FrameError>
    ensures { changed result registers.new
        ≡ executed (M.word memory.now) instruction registers.old }
{
    match instruction {
        Instruction::Add(number) => raise(u64::from(number), registers),
        Instruction::Lea(register, number) => {
            load(register, number, registers);
            Ok(())
        }
        Instruction::Pop(register) => {
            let push = UnwindOperation::PushNonVolatile(Register(register));
            undo(push, 0, registers, memory)
        }
        Instruction::Return(bytes) => pop_and_drop(bytes, registers, memory),
        Instruction::Jump(_) | Instruction::JumpByOperand => pop(registers, memory),
    }
}

/// Runs the pops with which the code starts.
fn execute_pops<M: Memory>(
    code: &[u8],
    registers: &mut Registers,
    memory: &M,
) -> Result<(), FrameError>
    ensures { changed result registers.new ≡ executed_all (M.word memory.now)
        (map Pop (popped_first most_pops code.now)) registers.old }
{
    let mut rest = code;
    for _ in 0..MOST_POPS {
        match pop_at(rest) {
            Some((register, size)) => {
                execute(Instruction::Pop(register), registers, memory)?;
                rest = &rest[size..];
            }
            None => return Ok(()),
        }
    }
    Ok(())
}

/// Frees the stack, if it is still to be.
fn execute_trim<M: Memory>(
    trim: Option<Instruction>,
    registers: &mut Registers,
    memory: &M,
) -> Result<(), FrameError>
    ensures { changed result registers.new
        ≡ executed_all (M.word memory.now) (alone trim) registers.old }
{
    match trim {
        Some(instruction) => execute(instruction, registers, memory),
        None => Ok(()),
    }
}

/// Makes the registers those before the instruction with which the rest of an epilog leaves the function.
#[tactic(auto, using(crate::proofs::Tails::trim_run, crate::proofs::Tails::before_exit))]
pub(crate) fn execute_before_exit<M: Memory>(
    tail: &Tail<'_>,
    registers: &mut Registers,
    memory: &M,
) -> Result<(), FrameError>
    ensures { changed result registers.new ≡ executed_all (M.word memory.now)
        (before_last (instructions_of tail.now)) registers.old }
{
    execute_trim(tail.trim, registers, memory)?;
    execute_pops(tail.pops, registers, memory)
}

/// The RVA to which the rest of an epilog jumps, if it ends with a jump to one.
#[tactic(auto, using(crate::proofs::Tails::exit_target))]
pub(crate) fn target_of(tail: &Tail<'_>) -> Option<u32>
    ensures { result ≡ target_of (instructions_of tail.now) }
{
    match tail.exit {
        Instruction::Jump(rva) if rva <= u64::from(u32::MAX) => Some(rva as u32),
        _ => None,
    }
}

/// Makes the registers those after the rest of an epilog.
#[tactic(auto, using(crate::proofs::Tails::tail_run))]
pub(crate) fn execute_tail<M: Memory>(
    tail: &Tail<'_>,
    registers: &mut Registers,
    memory: &M,
) -> Result<(), FrameError>
    ensures { changed result registers.new
        ≡ executed_all (M.word memory.now) (instructions_of tail.now) registers.old }
{
    execute_before_exit(tail, registers, memory)?;
    execute(tail.exit, registers, memory)
}
