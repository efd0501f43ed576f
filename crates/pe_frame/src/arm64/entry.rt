//! Codes that stand for no instruction: the operating system entered the function, and left a frame of its own on the stack.
//!
//! A machine frame (`MSFT_OP_MACHINE_FRAME`) has the stack pointer and the instruction pointer, a `CONTEXT` record
//! (`MSFT_OP_CONTEXT`, winnt.h) all registers. `MSFT_OP_CLEAR_UNWOUND_TO_CALL` leaves nothing: it says that the caller goes on at
//! the very instruction of its instruction pointer, as one whose epilog calls a helper. See
//! [the table of codes](https://learn.microsoft.com/cpp/build/arm64-exception-handling#unwind-codes).

ghost use Rattle.std.specs.Prelude.{◌≡◌, ◌<◌, List};
ghost use Rattle.pe_unwind.specs.declared.arm64.codes.Arm64UnwindCode.{Arm64UnwindCode};
ghost use Rattle.pe_frame.specs.Arm64Undoing.{loaded_context, context_offset, context_register, context_stores, entry_by, entry_of, joined, loaded_pointers, reverted_all, undone_custom};
ghost use Rattle.pe_frame.specs.Arm64Steps.{CodesThen, AreOver};
ghost use Rattle.pe_frame.specs.InPlace.{changed};

use super::operation::Arm64Register;
use super::record::first_code;
use super::registers::Arm64Registers;
use super::undo::load;
use crate::error::FrameError;
use crate::memory::{Memory, SIZE_OF_WORD};
use crate::undo::{Distance, above, number};
use pe_unwind::{Arm64CustomStackCase, Arm64UnwindCode};

/// The offsets in a `CONTEXT` record of x0 (`X`), of the stack pointer (`Sp`), after which the instruction pointer (`Pc`) stands,
/// and of d8 (`V[8]`), and the bytes of a vector.
const X_OF_CONTEXT: u64 = 8;

const SP_OF_CONTEXT: u64 = 0x100;

const D8_OF_CONTEXT: u64 = 0x190;

const SIZE_OF_VECTOR: u64 = 16;

/// How many registers of a `CONTEXT` record are restored before its pointers, and how many of these are integer registers.
const REGISTERS: u8 = 39;

const GENERAL: u8 = 31;

/// How a function was entered, by its codes.
#[derive(Clone, Copy)]
pub(crate) struct Arm64Entry {
    /// A frame of the operating system has the instruction pointer of the caller.
    pub(crate) has_pc: bool,
    /// No call left the caller.
    pub(crate) is_interrupt: bool,
}

/// How a function was entered, by one of its codes.
fn entry_by(code: Arm64UnwindCode) -> Arm64Entry
    ensures { result ≡ entry_by code }
{
    let (has_pc, is_interrupt) = match code {
        Arm64UnwindCode::CustomStack(Arm64CustomStackCase::MachineFrame)
        | Arm64UnwindCode::CustomStack(Arm64CustomStackCase::Context) => (true, true),
        Arm64UnwindCode::CustomStack(Arm64CustomStackCase::ClearUnwoundToCall) => (false, true),
        _ => (false, false),
    };
    Arm64Entry {
        has_pc,
        is_interrupt,
    }
}

/// How a function was entered, by these codes and those.
fn joined(some: Arm64Entry, others: Arm64Entry) -> Arm64Entry
    ensures { result ≡ joined some others }
{
    Arm64Entry {
        has_pc: some.has_pc || others.has_pc,
        is_interrupt: some.is_interrupt || others.is_interrupt,
    }
}

/// How a function was entered, by its codes. None of them is truncated.
pub(crate) fn entry_of(codes: &[u8]) -> Arm64Entry
    ensures { (cs : List Arm64UnwindCode) →
        CodesThen AreOver codes.now cs → result ≡ entry_of cs }
{
    let mut rest = codes;
    let mut entry = Arm64Entry {
        has_pc: false,
        is_interrupt: false,
    };
    while !rest.is_empty() {
        match first_code(rest, 0) {
            Ok(Some((code, size))) => {
                entry = joined(entry, entry_by(code));
                rest = &rest[size..];
            }
            Ok(None) => return entry,
            Err(_) => return entry,
        }
    }
    entry
}

/// Makes the stack pointer and the instruction pointer those that stand so far above the stack pointer.
fn load_pointers<M: Memory>(
    offset: u64,
    registers: &mut Arm64Registers,
    memory: &M,
) -> Result<(), FrameError>
    ensures { changed result registers.new
        ≡ loaded_pointers (M.word memory.now) offset registers.old }
{
    let address = above(registers.sp, Distance(offset))?;
    let sp = number(memory, address)?;
    registers.pc = number(memory, above(address, Distance(SIZE_OF_WORD))?)?;
    registers.sp = sp;
    Ok(())
}

/// A register of a `CONTEXT` record by a count: x0 to x30, then d8 to d15.
fn context_register(index: u8) -> Arm64Register
    ensures { result ≡ context_register index }
{
    if index < GENERAL {
        Arm64Register::X(index)
    } else {
        Arm64Register::D(index - GENERAL)
    }
}

/// Where a `CONTEXT` record has it.
fn context_offset(index: u8) -> u64
    ensures { result ≡ context_offset index }
{
    let index = u64::from(index);
    let general = u64::from(GENERAL);
    if index < general {
        X_OF_CONTEXT + SIZE_OF_WORD * index
    } else {
        D8_OF_CONTEXT + SIZE_OF_VECTOR * (index - general)
    }
}

/// Makes the registers those of the `CONTEXT` record at the stack pointer, but for its pointers.
fn load_registers<M: Memory>(registers: &mut Arm64Registers, memory: &M) -> Result<(), FrameError>
    ensures { changed result registers.new
        ≡ reverted_all (M.word memory.now) (context_stores 39) registers.old }
{
    let mut count = REGISTERS;
    while count > 0 {
        count -= 1;
        load(
            context_register(count),
            context_offset(count),
            registers,
            memory,
        )?;
    }
    Ok(())
}

/// Makes the registers those of the `CONTEXT` record at the stack pointer.
fn load_context<M: Memory>(registers: &mut Arm64Registers, memory: &M) -> Result<(), FrameError>
    ensures { changed result registers.new ≡ loaded_context (M.word memory.now) registers.old }
{
    load_registers(registers, memory)?;
    load_pointers(SP_OF_CONTEXT, registers, memory)
}

/// Makes the registers those before a code that stands for no instruction.
pub(crate) fn undo_custom<M: Memory>(
    code: Arm64UnwindCode,
    registers: &mut Arm64Registers,
    memory: &M,
) -> Result<(), FrameError>
    ensures { changed result registers.new
        ≡ undone_custom (M.word memory.now) code registers.old }
{
    match code {
        Arm64UnwindCode::CustomStack(Arm64CustomStackCase::MachineFrame) => {
            load_pointers(0, registers, memory)
        }
        Arm64UnwindCode::CustomStack(Arm64CustomStackCase::Context) => {
            load_context(registers, memory)
        }
        Arm64UnwindCode::CustomStack(Arm64CustomStackCase::ClearUnwoundToCall) => Ok(()),
        _ => Err(FrameError::Arm64Code(code)),
    }
}
