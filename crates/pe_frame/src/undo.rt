//! Undoing one operation of a prolog.

ghost use Rattle.std.specs.Prelude.{◌≡◌};
ghost use Rattle.pe_frame.specs.Undoing.{bytes_above, number, above, raised, require_integer, require_xmm, xmm_number, loaded_machine_frame, undone, popped, popped_and_dropped};
ghost use Rattle.pe_frame.specs.InPlace.{changed};

use crate::error::FrameError;
use crate::memory::{Memory, SIZE_OF_WORD};
use crate::registers::{RSP, Registers};
use pe_unwind::{Register, StackFrameOffset, UnwindOperation};

/// How many integer registers there are.
pub(crate) const INTEGER_REGISTERS: u8 = 16;

/// The numbers of the first XMM register and of the last.
const XMM0: u8 = 17;

const XMM15: u8 = 32;

/// How many numbers a word has: the weight of the high half of an XMM register.
const NUMBERS_OF_A_WORD: u128 = 0x1_0000_0000_0000_0000;

/// How far above the instruction pointer a machine frame has the stack pointer: past cs and the flags.
const RSP_OF_MACHINE_FRAME: u64 = 24;

/// The number of the eight bytes at an address.
pub(crate) fn number<M: Memory>(memory: &M, address: u64) -> Result<u64, FrameError>
    ensures { result ≡ number (M.word memory.now) address }
{
    match memory.u64_at(address) {
        Some(value) => Ok(value),
        None => Err(FrameError::Memory(address)),
    }
}

/// How many bytes lie between two addresses.
#[derive(Clone, Copy)]
pub(crate) struct Distance(pub(crate) u64);

/// The address so many bytes above another.
pub(crate) fn above(address: u64, distance: Distance) -> Result<u64, FrameError>
    ensures { result ≡ above address distance.0 }
{
    match address.checked_add(distance.0) {
        Some(sum) => Ok(sum),
        None => Err(FrameError::Address(address)),
    }
}

/// Raises the stack pointer.
pub(crate) fn raise(by: u64, registers: &mut Registers) -> Result<(), FrameError>
    ensures { changed result registers.new ≡ raised by registers.old }
{
    registers.general[RSP] = above(registers.general[RSP], Distance(by))?;
    Ok(())
}

/// The index of an integer register of an operation.
fn require_integer(operation: UnwindOperation, register: Register) -> Result<usize, FrameError>
    ensures { result ≡ require_integer operation register.0 }
{
    if register.0 < INTEGER_REGISTERS {
        Ok(usize::from(register.0))
    } else {
        Err(FrameError::Operation(operation))
    }
}

/// The index of an XMM register of an operation.
fn require_xmm(operation: UnwindOperation, register: Register) -> Result<usize, FrameError>
    ensures { result ≡ require_xmm operation register.0 }
{
    if XMM0 <= register.0 && register.0 <= XMM15 {
        Ok(usize::from(register.0 - XMM0))
    } else {
        Err(FrameError::Operation(operation))
    }
}

/// How far above the base of the frame a register is saved.
pub(crate) fn bytes_above(offset: StackFrameOffset) -> u64
    ensures { result ≡ bytes_above offset }
{
    match offset {
        StackFrameOffset::RSP(bytes) | StackFrameOffset::FP(bytes) => u64::from(bytes),
    }
}

/// The number of the 16 bytes at an address.
fn xmm_number<M: Memory>(memory: &M, address: u64) -> Result<u128, FrameError>
    ensures { result ≡ xmm_number (M.word memory.now) address }
{
    let low = number(memory, address)?;
    let high = number(memory, above(address, Distance(SIZE_OF_WORD))?)?;
    Ok(u128::from(low) + u128::from(high) * NUMBERS_OF_A_WORD)
}

/// Makes the registers those before an interrupt, whose machine frame has the instruction pointer at this address.
fn load_machine_frame<M: Memory>(
    address: u64,
    registers: &mut Registers,
    memory: &M,
) -> Result<(), FrameError>
    ensures { changed result registers.new
        ≡ loaded_machine_frame (M.word memory.now) address registers.old }
{
    registers.rip = number(memory, address)?;
    registers.general[RSP] = number(memory, above(address, Distance(RSP_OF_MACHINE_FRAME))?)?;
    Ok(())
}

/// Makes the registers those before an operation. Saved registers lie above the base. Inlined, so that what decodes an operation
/// leads to what undoes it.
#[inline(always)]
pub(crate) fn undo<M: Memory>(
    operation: UnwindOperation,
    base: u64,
    registers: &mut Registers,
    memory: &M,
) -> Result<(), FrameError>
    ensures { changed result registers.new
        ≡ undone (M.word memory.now) base operation registers.old }
{
    match operation {
        UnwindOperation::PushNonVolatile(register) => {
            let index = require_integer(operation, register)?;
            registers.general[index] = number(memory, registers.general[RSP])?;
            raise(SIZE_OF_WORD, registers)
        }
        UnwindOperation::Alloc(size) => raise(u64::from(size), registers),
        UnwindOperation::SetFPRegister => {
            registers.general[RSP] = base;
            Ok(())
        }
        UnwindOperation::SaveNonVolatile(register, offset) => {
            let index = require_integer(operation, register)?;
            registers.general[index] = number(memory, above(base, Distance(bytes_above(offset)))?)?;
            Ok(())
        }
        UnwindOperation::SaveXMM128(register, offset) => {
            let index = require_xmm(operation, register)?;
            registers.xmm[index] = xmm_number(memory, above(base, Distance(bytes_above(offset)))?)?;
            Ok(())
        }
        UnwindOperation::PushMachineFrame(has_error_code) => {
            let skipped = if has_error_code { SIZE_OF_WORD } else { 0 };
            load_machine_frame(
                above(registers.general[RSP], Distance(skipped))?,
                registers,
                memory,
            )
        }
        UnwindOperation::Epilog { .. } | UnwindOperation::Noop => Ok(()),
        UnwindOperation::SaveXMM(_, _) => Err(FrameError::Operation(operation)),
    }
}

/// Makes the registers those of the caller, where the stack pointer points at the return address and so many bytes after it
/// are dropped.
#[inline(always)]
pub(crate) fn pop_and_drop<M: Memory>(
    bytes: u16,
    registers: &mut Registers,
    memory: &M,
) -> Result<(), FrameError>
    ensures { changed result registers.new ≡ popped_and_dropped (M.word memory.now) bytes registers.old }
{
    let address = number(memory, registers.general[RSP])?;
    raise(SIZE_OF_WORD + u64::from(bytes), registers)?;
    registers.rip = address;
    Ok(())
}

/// Makes the registers those of the caller, where the stack pointer points at the return address.
#[inline(always)]
pub(crate) fn pop<M: Memory>(registers: &mut Registers, memory: &M) -> Result<(), FrameError>
    ensures { changed result registers.new ≡ popped (M.word memory.now) registers.old }
{
    pop_and_drop(0, registers, memory)
}
