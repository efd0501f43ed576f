//! One step of a stack walk on x64: the registers of a function's caller, from its own registers, its records in the image
//! and the memory of its stack. A walk makes it again and again, from the innermost frame outwards.
//! https://learn.microsoft.com/cpp/build/exception-handling-x64

ghost use Rattle.std.specs.Prelude.{◌≡◌, ◌<◌, Ok, Err, IsTrue, false, length};
ghost use Rattle.pe_core.specs.Refusals.{Returns};
ghost use Rattle.pe_core.specs.Rows.{each};
ghost use Rattle.pe_frame.specs.InPlace.{changed_with};
ghost use Rattle.pe_frame.specs.Undoing.{popped};
ghost use Rattle.calls_stacks.specs.StackFrames.{whole_xmm, half_xmm, registers_of, flat_registers, error_number, error_address, at_address, exceptions_by, StepsOf, StepsIn, HandsOutLeft, HandsOutLeftOr, HandsOutOver, HandsOutPopped};
ghost use Rattle.calls_base.specs.Views.{map_of};
ghost use Rattle.calls_base.specs.declared.results.TheConstants.{DONE};

use calls_base::ranges::Range;
use calls_base::results::{
    BAD_ADDRESS, BAD_OPERATION, DONE, LONG_CHAIN, MISSING, NOT_RISING, number_of,
};
use calls_base::view::View;
use pe_core::{ByteRange, Result, RvaMap};
use pe_frame::{
    FrameError, ImageFunctions, Memory, Registers, Stopped, step_by_plain_record,
    step_in_function_in_place,
};
use pe_unwind::{ExceptionData, RuntimeFunction};

/// The stack pointer among the integer registers.
pub(crate) const RSP: usize = 4;

/// The bytes of a word of the stack.
const SIZE_OF_WORD: u64 = 8;

/// How many numbers a half of an XMM register has.
const NUMBERS_OF_A_HALF: u128 = 0x1_0000_0000_0000_0000;

/// The registers of a thread that unwinding restores.
#[repr(C)]
#[derive(Clone, Copy)]
pub struct FrameRegisters {
    /// The integer registers by their numbers in unwind data: rax, rcx, rdx, rbx, rsp, rbp, rsi, rdi, r8 to r15.
    pub general: [u64; 16],
    /// The XMM registers, xmm0 to xmm15, of each the low half and then the high half.
    pub xmm: [u64; 32],
    /// The instruction pointer.
    pub rip: u64,
}

/// A frame of a stack walk, as a step takes it and leaves it.
#[repr(C)]
#[derive(Clone, Copy)]
pub struct StackFrame {
    /// The registers inside the function; after the step those of its caller.
    pub registers: FrameRegisters,
    /// The address that an error speaks of.
    pub address: u64,
    /// The function that lookup found.
    pub function: RuntimeFunction,
    /// The instruction pointer less the address where the image is loaded.
    pub rva: u32,
    /// 0 in a function that lookup found. Any other number in a leaf function, which no function of the table covers.
    pub leaf: u32,
    /// After a step 1 if an interrupt left the registers of the caller, else 0.
    pub interrupted: u32,
}

/// An XMM register of its halves.
fn whole(halves: &[u64; 32], index: usize) -> u128
    requires { index < 16 }
    ensures { result ≡ whole_xmm halves.now index }
{
    let (low, high) = (
        u128::from(halves[2 * index]),
        u128::from(halves[2 * index + 1]),
    );
    low + high * NUMBERS_OF_A_HALF
}

/// The XMM registers of their halves. Each is named, so that no loop counts them.
#[tactic(auto, unfolding(pe_core::specs::Rows::each))]
fn whole_registers(halves: &[u64; 32]) -> [u128; 16]
    ensures { result ≡ each (whole_xmm halves.now) 16 }
{
    [
        whole(halves, 0),
        whole(halves, 1),
        whole(halves, 2),
        whole(halves, 3),
        whole(halves, 4),
        whole(halves, 5),
        whole(halves, 6),
        whole(halves, 7),
        whole(halves, 8),
        whole(halves, 9),
        whole(halves, 10),
        whole(halves, 11),
        whole(halves, 12),
        whole(halves, 13),
        whole(halves, 14),
        whole(halves, 15),
    ]
}

/// Half of an XMM register: the low half at an even index, the high one at an odd index.
fn half(registers: &[u128; 16], index: usize) -> u64
    requires { index < 32 }
    ensures { result ≡ half_xmm registers.now index }
{
    let register = registers[index / 2];
    if index % 2 == 0 {
        (register % NUMBERS_OF_A_HALF) as u64
    } else {
        (register / NUMBERS_OF_A_HALF) as u64
    }
}

/// The halves of the XMM registers, each of which is named.
#[tactic(auto, unfolding(pe_core::specs::Rows::each))]
fn half_registers(registers: &[u128; 16]) -> [u64; 32]
    ensures halves { result ≡ each (half_xmm registers.now) 32 }
    ensures count { length registers.now ≡ 16 }
{
    [
        half(registers, 0),
        half(registers, 1),
        half(registers, 2),
        half(registers, 3),
        half(registers, 4),
        half(registers, 5),
        half(registers, 6),
        half(registers, 7),
        half(registers, 8),
        half(registers, 9),
        half(registers, 10),
        half(registers, 11),
        half(registers, 12),
        half(registers, 13),
        half(registers, 14),
        half(registers, 15),
        half(registers, 16),
        half(registers, 17),
        half(registers, 18),
        half(registers, 19),
        half(registers, 20),
        half(registers, 21),
        half(registers, 22),
        half(registers, 23),
        half(registers, 24),
        half(registers, 25),
        half(registers, 26),
        half(registers, 27),
        half(registers, 28),
        half(registers, 29),
        half(registers, 30),
        half(registers, 31),
    ]
}

/// The registers that a caller passes.
pub fn registers_of(registers: &FrameRegisters) -> Registers
    ensures { result ≡ registers_of registers.now }
{
    Registers {
        general: registers.general,
        xmm: whole_registers(&registers.xmm),
        rip: registers.rip,
    }
}

/// Registers as callers get them.
pub fn flat_registers(registers: &Registers) -> FrameRegisters
    ensures flat { result ≡ flat_registers registers.now }
    ensures xmm { length registers.now.xmm ≡ 16 }
{
    FrameRegisters {
        general: registers.general,
        xmm: half_registers(&registers.xmm),
        rip: registers.rip,
    }
}

/// Writes registers as callers get them, where they stand: no record of them is made and moved.
pub fn put_registers(registers: &Registers, flat: &mut FrameRegisters)
    ensures flat { flat.new ≡ flat_registers registers.now }
    ensures xmm { length registers.now.xmm ≡ 16 }
{
    flat.general = registers.general;
    flat.xmm = half_registers(&registers.xmm);
    flat.rip = registers.rip;
}

/// The number of an error of a step, and the address that it speaks of.
pub fn reported(error: &FrameError) -> (u32, Option<u64>)
    ensures { result ≡ (error_number error.now, error_address error.now) }
{
    match error {
        FrameError::Codes(error) => (number_of(error), None),
        FrameError::Memory(address) => (MISSING, Some(*address)),
        FrameError::Address(address) => (BAD_ADDRESS, Some(*address)),
        FrameError::Operation(_) => (BAD_OPERATION, None),
        FrameError::Arm64Code(_) => (BAD_OPERATION, None),
        FrameError::Packed(_) => (BAD_OPERATION, None),
        FrameError::NotRising(pointer) => (NOT_RISING, Some(*pointer)),
    }
}

/// Writes the address that an error speaks of to a frame.
fn report(error: &FrameError, frame: &mut StackFrame) -> u32
    ensures number { result ≡ error_number error.now }
    ensures frame { frame.new ≡ at_address frame.old (error_address error.now) }
{
    let (number, address) = reported(error);
    if let Some(address) = address {
        frame.address = address;
    }
    number
}

/// Pops the return address of a frame, as `leaf` of pe_frame does, and touches no other register.
fn pop_in_place<M: Memory>(memory: &M, frame: &mut StackFrame) -> u32
    ensures { HandsOutPopped result frame.old frame.new
        (popped (M.word memory.now) (registers_of frame.old.registers)) }
{
    let pointer = frame.registers.general[RSP];
    let Some(address) = memory.u64_at(pointer) else {
        frame.address = pointer;
        return MISSING;
    };
    let Some(above) = pointer.checked_add(SIZE_OF_WORD) else {
        frame.address = pointer;
        return BAD_ADDRESS;
    };
    frame.registers.general[RSP] = above;
    frame.registers.rip = address;
    frame.interrupted = 0;
    DONE
}

/// Writes the caller's registers to a frame, if a step left any, and whether an interrupt left them, or the address that an error
/// speaks of.
fn put_caller(
    left: std::result::Result<bool, FrameError>,
    registers: &Registers,
    frame: &mut StackFrame,
) -> u32
    ensures { HandsOutLeft result frame.old frame.new (changed_with left registers.now) }
{
    match left {
        Ok(is_interrupted) => {
            put_registers(registers, &mut frame.registers);
            frame.interrupted = u32::from(is_interrupted);
            DONE
        }
        Err(error) => report(&error, frame),
    }
}

/// A step by the records of the frame's function in an image, and its number. Out of line, as few functions have no plain record.
#[inline(never)]
fn step_by_any_records<R: RvaMap, M: Memory>(
    functions: &ImageFunctions<'_, R>,
    code: &[u8],
    memory: &M,
    frame: &mut StackFrame,
) -> u32
    ensures { StepsOf functions.now.exceptions.now (R.offset functions.now.map.now) code.now
        (M.word memory.now) frame.old (HandsOutLeftOr result frame.old frame.new) }
{
    let stopped = Stopped {
        rva: frame.rva,
        code,
    };
    let (function, mut caller) = (frame.function, registers_of(&frame.registers));
    match step_in_function_in_place(functions, function, stopped, &mut caller, memory) {
        Ok(Some(left)) => put_caller(left, &caller, frame),
        Ok(None) => LONG_CHAIN,
        Err(error) => number_of(&error),
    }
}

/// Makes a step by the plain record of the frame's function where the registers are, which are not copied. False where there is code,
/// or the function has no such record, or the step is refused: then the frame stays.
#[inline(always)]
fn steps_by_plain_record<R: RvaMap, M: Memory>(
    functions: &ImageFunctions<'_, R>,
    code: &[u8],
    memory: &M,
    frame: &mut StackFrame,
) -> bool
    ensures step { IsTrue result → StepsOf functions.now.exceptions.now (R.offset functions.now.map.now) code.now
        (M.word memory.now) frame.old (HandsOutLeftOr DONE frame.old frame.new) }
    ensures kept { result ≡ false → frame.new ≡ frame.old }
{
    if !code.is_empty() {
        return false;
    }
    let (function, rva) = (frame.function, frame.rva);
    let before = frame.registers.general;
    let general = &mut frame.registers.general;
    match step_by_plain_record(functions, function, rva, general, memory) {
        Some(rip) => {
            // They stay, as the compiler finds: the halves of the registers that have these halves.
            frame.registers.xmm = half_registers(&whole_registers(&frame.registers.xmm));
            frame.registers.rip = rip;
            frame.interrupted = 0;
            true
        }
        None => {
            frame.registers.general = before;
            false
        }
    }
}

/// A step by the records of the frame's function in an image, and its number.
#[inline(always)]
fn step_of<R: RvaMap, M: Memory>(
    functions: &ImageFunctions<'_, R>,
    code: &[u8],
    memory: &M,
    frame: &mut StackFrame,
) -> u32
    ensures { StepsOf functions.now.exceptions.now (R.offset functions.now.map.now) code.now
        (M.word memory.now) frame.old (HandsOutLeftOr result frame.old frame.new) }
{
    if steps_by_plain_record(functions, code, memory, frame) {
        return DONE;
    }
    step_by_any_records(functions, code, memory, frame)
}

/// The exception data of an image whose function table is at a range. Error: `Short` if the table does not lie in the bytes.
fn exceptions_by<'a>(image: &View<'a>, table: &Range) -> Result<ExceptionData<'a>>
    ensures { Returns result (exceptions_by image.now table.now) }
{
    let table = ByteRange {
        offset: table.offset as usize,
        length: table.length as usize,
    };
    ExceptionData::of_table(image.bytes, table, image.image.file_alignment)
}

/// The same by the function table of an image. Out of line, so that leaf functions do not pay for its room.
#[inline(never)]
fn step_by_table<M: Memory>(
    image: &View<'_>,
    table: &Range,
    code: &[u8],
    memory: &M,
    frame: &mut StackFrame,
) -> u32
    ensures { StepsIn (exceptions_by image.now table.now) (map_of image.now) code.now
        (M.word memory.now) frame.old (HandsOutLeftOr result frame.old frame.new) }
{
    match exceptions_by(image, table) {
        Ok(exceptions) => {
            let functions = ImageFunctions {
                exceptions: &exceptions,
                map: image,
            };
            step_of(&functions, code, memory, frame)
        }
        Err(error) => number_of(&error),
    }
}

/// A step over the stack of a frame, by the records of its function or as a leaf, and its number.
pub fn step_over<M: Memory>(
    image: &View<'_>,
    table: &Range,
    code: &[u8],
    memory: &M,
    frame: &mut StackFrame,
) -> u32
    ensures { HandsOutOver frame.old.leaf image.now table.now code.now (M.word memory.now)
        result frame.old frame.new }
{
    if frame.leaf != 0 {
        return pop_in_place(memory, frame);
    }
    step_by_table(image, table, code, memory, frame)
}
