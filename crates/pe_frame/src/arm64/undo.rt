//! Undoing one operation of a prolog on ARM64.

ghost use Rattle.std.specs.Prelude.{◌≡◌, ℕ, Option, ◌+◌, ◌^◌, ◌<◌, ◌≤◌, [], ◌∷◌, ◌++◌, IfSome, Some};
ghost use Rattle.std.specs.Option.{option_and_then};
ghost use Rattle.pe_unwind.specs.declared.arm64.codes.Arm64UnwindCode.TheVariants.{SaveNext};
ghost use Rattle.pe_frame.specs.Arm64Operations.{Lower, Store, SetFramePointer, pair_after, operation_of, effects_of, store_some};
ghost use Rattle.pe_frame.specs.Arm64Undoing.{stripped, put_saved, reverted, reverted_all, undone_as};
ghost use Rattle.pe_frame.specs.Arm64Reading.{pair_registers};
ghost use Rattle.pe_frame.specs.InPlace.{changed};

use super::operation::{Arm64Operation, Arm64Register, operation_of, register_after};
use super::registers::{Arm64Registers, FRAME_POINTER, LINK_REGISTER};
use crate::error::FrameError;
use crate::memory::{Memory, SIZE_OF_WORD};
use crate::undo::{Distance, above, number};
use pe_unwind::Arm64UnwindCode;

/// The weight of bit 55, which is set in addresses of the system; how many addresses the 48 bits below a signature have; and
/// the bits above them.
const SYSTEM_BIT: u64 = 0x80_0000_0000_0000;

const ADDRESSES: u64 = 0x1_0000_0000_0000;

const HIGH_BITS: u64 = 0xFFFF_0000_0000_0000;

/// How many integer registers there are, and how many floating-point registers are preserved.
const GENERAL: usize = 31;

const FLOATS: usize = 8;

/// The bytes of a pair of registers on the stack, and from how many pairs on none is left.
const SIZE_OF_PAIR: u64 = 16;

const PAIRS: usize = 16;

/// An address without its signature.
pub(crate) fn stripped(address: u64) -> u64
    ensures { result ≡ stripped address }
{
    let low = address % ADDRESSES;
    if address / SYSTEM_BIT % 2 == 1 {
        low + HIGH_BITS
    } else {
        low
    }
}

/// Raises the stack pointer.
fn raise(by: u32, registers: &mut Arm64Registers) -> Result<(), FrameError>
    ensures { (m : ℕ → Option ℕ) →
        changed result registers.new ≡ reverted_all m (Lower by ∷ []) registers.old }
{
    registers.sp = above(registers.sp, Distance(u64::from(by)))?;
    Ok(())
}

/// Moves the stack pointer so far below x29.
fn lower_to_frame(offset: u32, registers: &mut Arm64Registers) -> Result<(), FrameError>
    ensures { (m : ℕ → Option ℕ) →
        changed result registers.new ≡ reverted_all m (SetFramePointer offset ∷ []) registers.old }
{
    let frame = registers.general[FRAME_POINTER];
    match frame.checked_sub(u64::from(offset)) {
        Some(address) => {
            registers.sp = address;
            Ok(())
        }
        None => Err(FrameError::Address(frame)),
    }
}

/// Writes one of the registers.
fn put(register: Arm64Register, value: u64, registers: &mut Arm64Registers)
    ensures { registers.new ≡ put_saved registers.old register value }
{
    match register {
        Arm64Register::X(number) => {
            let index = usize::from(number);
            if index < GENERAL {
                registers.general[index] = value;
            }
        }
        Arm64Register::D(number) => {
            let index = usize::from(number);
            if index < FLOATS {
                registers.float[index] = value;
            }
        }
    }
}

/// Loads a register from where it was stored, so many bytes above the stack pointer.
pub(crate) fn load<M: Memory>(
    register: Arm64Register,
    offset: u64,
    registers: &mut Arm64Registers,
    memory: &M,
) -> Result<(), FrameError>
    ensures { changed result registers.new
        ≡ reverted (M.word memory.now) (Store register offset) registers.old }
{
    let value = number(memory, above(registers.sp, Distance(offset))?)?;
    put(register, value, registers);
    Ok(())
}

/// Makes the registers those before two of them were stored, the second eight bytes above the first, after the stack pointer
/// moved.
fn undo_pair<M: Memory>(
    pair: (Arm64Register, Arm64Register),
    offset: u64,
    moved: u32,
    registers: &mut Arm64Registers,
    memory: &M,
) -> Result<(), FrameError>
    requires { offset < 2 ^ 40 }
    ensures { changed result registers.new ≡ reverted_all (M.word memory.now)
        (Store pair.0 offset ∷ Store pair.1 (offset + 8) ∷ Lower moved ∷ []) registers.old }
{
    load(pair.0, offset, registers, memory)?;
    load(pair.1, offset + SIZE_OF_WORD, registers, memory)?;
    raise(moved, registers)
}

/// A slot so many bytes above the stack pointer, and the register that is restored from it, if one is.
#[derive(Clone, Copy)]
struct Slot {
    register: Option<Arm64Register>,
    offset: u64,
}

/// Loads the register of a slot.
fn load_some<M: Memory>(
    slot: Slot,
    registers: &mut Arm64Registers,
    memory: &M,
) -> Result<(), FrameError>
    ensures { changed result registers.new
        ≡ reverted_all (M.word memory.now) (store_some slot.register slot.offset) registers.old }
{
    match slot.register {
        Some(register) => load(register, slot.offset, registers, memory),
        None => Ok(()),
    }
}

/// The same of two slots.
fn load_each<M: Memory>(
    first: Slot,
    second: Slot,
    registers: &mut Arm64Registers,
    memory: &M,
) -> Result<(), FrameError>
    ensures { changed result registers.new ≡ reverted_all (M.word memory.now)
        (store_some first.register first.offset ++ store_some second.register second.offset)
        registers.old }
{
    load_some(first, registers, memory)?;
    load_some(second, registers, memory)
}

/// Makes the registers those before each of two was stored, if it was: the first so many bytes above the stack pointer, the
/// second so many above the first.
fn undo_save_each<M: Memory>(
    pair: (Option<Arm64Register>, Option<Arm64Register>),
    offset: u32,
    apart: u32,
    registers: &mut Arm64Registers,
    memory: &M,
) -> Result<(), FrameError>
    ensures { changed result registers.new ≡ reverted_all (M.word memory.now)
        (store_some pair.0 offset ++ store_some pair.1 (offset + apart)) registers.old }
{
    let first = Slot {
        register: pair.0,
        offset: u64::from(offset),
    };
    let second = Slot {
        register: pair.1,
        offset: first.offset + u64::from(apart),
    };
    load_each(first, second, registers, memory)
}

/// Makes the registers those before an operation.
pub(crate) fn undo_operation<M: Memory>(
    operation: Arm64Operation,
    registers: &mut Arm64Registers,
    memory: &M,
) -> Result<(), FrameError>
    ensures { changed result registers.new
        ≡ reverted_all (M.word memory.now) (effects_of operation) registers.old }
{
    match operation {
        Arm64Operation::Allocate(size) => raise(size, registers),
        Arm64Operation::Save {
            register,
            offset,
            moved,
        } => {
            load(register, u64::from(offset), registers, memory)?;
            raise(moved, registers)
        }
        Arm64Operation::SavePair {
            first,
            second,
            offset,
            moved,
        } => undo_pair((first, second), u64::from(offset), moved, registers, memory),
        Arm64Operation::SaveWithLink { register, offset } => {
            let pair = (register, Arm64Register::X(LINK_REGISTER as u8));
            undo_pair(pair, u64::from(offset), 0, registers, memory)
        }
        Arm64Operation::SaveEach {
            first,
            second,
            offset,
            apart,
        } => undo_save_each((first, second), offset, apart, registers, memory),
        Arm64Operation::SetFrame(offset) => lower_to_frame(offset, registers),
        Arm64Operation::Sign => {
            registers.general[LINK_REGISTER] = stripped(registers.general[LINK_REGISTER]);
            Ok(())
        }
        Arm64Operation::Nothing => Ok(()),
    }
}

/// The registers of the n-th pair after the one that starts with a register.
fn pair_registers(count: usize, first: Arm64Register) -> Option<(Arm64Register, Arm64Register)>
    ensures value { result ≡ pair_registers count first }
    ensures near { IfSome result (λ _. count < 16) }
{
    if PAIRS <= count {
        return None;
    }
    let first = register_after(first, 2 * count as u64)?;
    let second = register_after(first, 1)?;
    Some((first, second))
}

/// Makes the registers those before the n-th `save_next` in a row, by the code after all of these.
pub(crate) fn undo_save_next<M: Memory>(
    count: usize,
    code: Arm64UnwindCode,
    registers: &mut Arm64Registers,
    memory: &M,
) -> Result<(), FrameError>
    ensures { changed result registers.new ≡ undone_as (M.word memory.now) SaveNext
        (option_and_then (pair_after count) (operation_of code)) registers.old }
{
    let refused = FrameError::Arm64Code(Arm64UnwindCode::SaveNext);
    let Some(Arm64Operation::SavePair { first, offset, .. }) = operation_of(code) else {
        return Err(refused);
    };
    match pair_registers(count, first) {
        Some(pair) => {
            let above_first = u64::from(offset) + SIZE_OF_PAIR * count as u64;
            undo_pair(pair, above_first, 0, registers, memory)
        }
        None => Err(refused),
    }
}
