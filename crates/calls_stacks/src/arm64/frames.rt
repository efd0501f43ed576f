//! One step of a stack walk on ARM64: the registers of a function's caller, from its own registers, its unwind data in the
//! image and the memory of its stack.
//! https://learn.microsoft.com/cpp/build/arm64-exception-handling

ghost use Rattle.std.specs.Prelude.{◌≡◌, ◌-◌, ◌/◌};
ghost use Rattle.std.specs.Option.{option_map};
ghost use Rattle.pe_core.specs.Refusals.{answer_by};
ghost use Rattle.pe_unwind.specs.Arm64Record.{info_view};
ghost use Rattle.pe_frame.specs.Arm64Walks.{stepped_out_packed};
ghost use Rattle.calls_stacks.specs.Arm64Frames.{arm64_registers_of, flat_arm64_registers, arm64_info_of, HandsOutArm64By, HandsOutArm64Left, HandsOutArm64Over, left_arm64};

use crate::stack::frames::reported;
use calls_base::results::{DONE, number_of};
use calls_base::view::View;
use pe_core::{Error, RvaMap};
use pe_frame::{Arm64Registers, FrameError, Memory, leaf_arm64, step_arm64_packed, step_out_arm64};
use pe_unwind::{Arm64RuntimeFunction, Arm64UnwindInfo};

/// The registers of a thread that unwinding restores.
#[repr(C)]
#[derive(Clone, Copy)]
pub struct Arm64FrameRegisters {
    /// The integer registers, x0 to x30: x29 is the frame pointer, x30 the link register.
    pub general: [u64; 31],
    /// The floating-point registers d8 to d15, which are the low halves of v8 to v15.
    pub floats: [u64; 8],
    /// The stack pointer.
    pub sp: u64,
    /// The instruction pointer.
    pub pc: u64,
}

/// A frame of a stack walk on ARM64, as a step takes it and leaves it.
#[repr(C)]
#[derive(Clone, Copy)]
pub struct Arm64StackFrame {
    /// The registers inside the function; after the step those of its caller.
    pub registers: Arm64FrameRegisters,
    /// The address that an error speaks of.
    pub address: u64,
    /// The function that lookup found.
    pub function: Arm64RuntimeFunction,
    /// The instruction pointer less the address where the image is loaded.
    pub rva: u32,
    /// 0 in a function that lookup found. Any other number in a leaf function, which no function of the table covers.
    pub leaf: u32,
    /// After a step 1 if no call left the registers of the caller, else 0.
    pub interrupted: u32,
    /// 0.
    pub spare: u32,
}

/// The registers that a caller passes.
pub fn registers_of(registers: &Arm64FrameRegisters) -> Arm64Registers
    ensures { result ≡ arm64_registers_of registers.now }
{
    Arm64Registers {
        general: registers.general,
        float: registers.floats,
        sp: registers.sp,
        pc: registers.pc,
    }
}

/// Registers as callers get them.
pub fn flat_registers(registers: &Arm64Registers) -> Arm64FrameRegisters
    ensures { result ≡ flat_arm64_registers registers.now }
{
    Arm64FrameRegisters {
        general: registers.general,
        floats: registers.float,
        sp: registers.sp,
        pc: registers.pc,
    }
}

/// The unwind record of a function in an image, if its unwind data are not packed.
fn info_of<'a>(
    image: &View<'a>,
    function: Arm64RuntimeFunction,
) -> Result<Option<Arm64UnwindInfo<'a>>, Error>
    ensures { answer_by (option_map info_view) result ≡ arm64_info_of image.now function }
{
    // A record is found by its RVA, without the function table.
    if function.is_packed() {
        return Ok(None);
    }
    let offset = image.file_offset(function.unwind_data_rva())?;
    Ok(Some(Arm64UnwindInfo::parse(image.bytes, offset)?))
}

/// The registers of the caller by packed unwind data. No interrupt left them.
fn step_out_packed<M: Memory>(
    function: &Arm64RuntimeFunction,
    rva: u32,
    registers: Arm64Registers,
    memory: &M,
) -> Result<(Arm64Registers, bool), FrameError>
    ensures { result ≡ stepped_out_packed (M.word memory.now)
        function.now.unwind_data ((rva - function.now.begin_address) / 4) registers }
{
    match step_arm64_packed(function, rva, registers, memory) {
        Ok(left) => Ok((left, false)),
        Err(error) => Err(error),
    }
}

/// Writes the caller's registers to a frame, and whether no call left them, or the address that an error speaks of.
fn hand_out_left(
    left: Result<(Arm64Registers, bool), FrameError>,
    frame: &mut Arm64StackFrame,
) -> u32
    ensures { HandsOutArm64Left result frame.old frame.new left }
{
    match left {
        Ok((registers, is_interrupted)) => {
            frame.registers = flat_registers(&registers);
            frame.interrupted = u32::from(is_interrupted);
            DONE
        }
        Err(error) => {
            let (number, address) = reported(&error);
            if let Some(address) = address {
                frame.address = address;
            }
            number
        }
    }
}

/// A step over the stack of a frame by the unwind data of its function, and its number.
fn step_by_data<M: Memory>(image: &View<'_>, memory: &M, frame: &mut Arm64StackFrame) -> u32
    ensures { HandsOutArm64By (M.word memory.now) result frame.old frame.new
        (arm64_info_of image.now frame.old.function) }
{
    let function = frame.function;
    let info = match info_of(image, function) {
        Ok(info) => info,
        Err(error) => return number_of(&error),
    };
    let (rva, registers) = (frame.rva, registers_of(&frame.registers));
    let left = match info {
        Some(info) => step_out_arm64(&function, &info, rva, registers, memory),
        None => step_out_packed(&function, rva, registers, memory),
    };
    hand_out_left(left, frame)
}

/// Writes the registers of the caller of a leaf function to a frame: it goes on at the link register.
fn leave_leaf(frame: &mut Arm64StackFrame) -> u32
    ensures done { result ≡ DONE }
    ensures caller { frame.new ≡ left_arm64 frame.old }
{
    frame.registers = flat_registers(&leaf_arm64(registers_of(&frame.registers)));
    frame.interrupted = 0;
    DONE
}

/// A step over the stack of a frame, by the unwind data of its function or as a leaf, and its number.
pub fn step_over<M: Memory>(image: &View<'_>, memory: &M, frame: &mut Arm64StackFrame) -> u32
    ensures { HandsOutArm64Over frame.old.leaf image.now (M.word memory.now)
        result frame.old frame.new }
{
    if frame.leaf != 0 {
        return leave_leaf(frame);
    }
    step_by_data(image, memory, frame)
}
