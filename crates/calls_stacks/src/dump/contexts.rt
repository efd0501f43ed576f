//! The contexts of a minidump: the registers of a thread, with which a stack walk starts.
//! https://learn.microsoft.com/windows/win32/api/winnt/ns-winnt-context

ghost use Rattle.std.specs.Prelude.{◌≡◌, ◌%◌, ◌^◌, ◌<◌, slice_index};
ghost use Rattle.calls_stacks.specs.DumpContexts.{any_context, arm64_reported, context_arm64_at, context_x64_at, floats_or_zero, low_halves, x64_reported, xmm_or_zero};
ghost use Rattle.calls_stacks.specs.Dumps.{DumpHandsOut, dump_answer};

use crate::arm64::frames::Arm64FrameRegisters;
use crate::dump::{hand_out_dump, number_of_dump};
use crate::stack::frames::{FrameRegisters, flat_registers};
use pe_frame::Registers;
use pe_minidump::{ContextArm64, ContextX64, DumpError, Location, Result, located};

/// The registers of a thread on x64 (`CONTEXT`).
#[repr(C)]
#[derive(Clone, Copy)]
pub struct X64Context {
    /// Those that unwinding restores. The XMM registers are 0 where they were not saved.
    pub registers: FrameRegisters,
    /// Which parts were saved, `CONTEXT_*`: bit 3 says the XMM registers.
    pub context_flags: u32,
    /// The flags of the processor.
    pub eflags: u32,
}

/// The registers of a thread on ARM64 (`ARM64_NT_CONTEXT`).
#[repr(C)]
#[derive(Clone, Copy)]
pub struct Arm64Context {
    /// Those that unwinding restores. d8 to d15 are 0 where they were not saved.
    pub registers: Arm64FrameRegisters,
    /// Which parts were saved, `CONTEXT_ARM64_*`: bit 2 says d8 to d15.
    pub context_flags: u32,
    /// The flags of the processor.
    pub cpsr: u32,
}

/// The number of x64 as a machine, `PROCESSOR_ARCHITECTURE_AMD64`.
pub const X64_MACHINE: u32 = 9;

/// The number of ARM64, `PROCESSOR_ARCHITECTURE_ARM64`.
pub const ARM64_MACHINE: u32 = 12;

/// The registers of a thread on any machine: a call writes those of one.
#[repr(C)]
#[derive(Clone, Copy)]
pub struct AnyContext {
    /// On x64.
    pub x64: X64Context,
    /// On ARM64.
    pub arm64: Arm64Context,
}

/// The XMM registers, 0 where they were not saved.
fn xmm_of(context: &ContextX64) -> [u128; 16]
    ensures { result ≡ xmm_or_zero context.now.xmm }
{
    match context.xmm {
        Some(xmm) => xmm,
        None => [0; 16],
    }
}

/// A context of x64 as callers get it.
fn x64_reported(context: &ContextX64) -> X64Context
    ensures { result ≡ x64_reported context.now }
{
    let (general, xmm) = (context.general, xmm_of(context));
    let registers = flat_registers(&Registers {
        general,
        xmm,
        rip: context.rip,
    });
    X64Context {
        registers,
        context_flags: context.context_flags,
        eflags: context.eflags,
    }
}

pub fn context_x64_at(bytes: &[u8], location: &Location) -> Result<X64Context>
    ensures { dump_answer result ≡ context_x64_at bytes.now location.now }
{
    let (offset, size) = (u64::from(location.rva), u64::from(location.size));
    let context = ContextX64::parse(located(bytes, offset, size)?)?;
    Ok(x64_reported(&context))
}

/// The low half of a vector register.
fn low_half(registers: &[u128; 32], index: usize) -> u64
    requires { index < 32 }
    ensures { result ≡ slice_index registers.now index % 2 ^ 64 }
{
    (registers[index] % 0x1_0000_0000_0000_0000) as u64
}

/// d8 to d15, which are the low halves of v8 to v15.
#[tactic(auto, unfolding(pe_core::specs::Rows::each))]
fn low_halves(registers: &[u128; 32]) -> [u64; 8]
    ensures { result ≡ low_halves registers.now }
{
    [
        low_half(registers, 8),
        low_half(registers, 9),
        low_half(registers, 10),
        low_half(registers, 11),
        low_half(registers, 12),
        low_half(registers, 13),
        low_half(registers, 14),
        low_half(registers, 15),
    ]
}

/// d8 to d15, 0 where they were not saved.
fn floats_of(context: &ContextArm64) -> [u64; 8]
    ensures { result ≡ floats_or_zero context.now.v }
{
    match &context.v {
        Some(registers) => low_halves(registers),
        None => [0; 8],
    }
}

/// A context of ARM64 as callers get it.
fn arm64_reported(context: &ContextArm64) -> Arm64Context
    ensures { result ≡ arm64_reported context.now }
{
    let (general, floats) = (context.x, floats_of(context));
    Arm64Context {
        registers: Arm64FrameRegisters {
            general,
            floats,
            sp: context.sp,
            pc: context.pc,
        },
        context_flags: context.context_flags,
        cpsr: context.cpsr,
    }
}

pub fn context_arm64_at(bytes: &[u8], location: &Location) -> Result<Arm64Context>
    ensures { dump_answer result ≡ context_arm64_at bytes.now location.now }
{
    let (offset, size) = (u64::from(location.rva), u64::from(location.size));
    let context = ContextArm64::parse(located(bytes, offset, size)?)?;
    Ok(arm64_reported(&context))
}

/// Reads the context of a machine into its field.
pub fn hand_out_context(
    bytes: &[u8],
    location: &Location,
    machine: u32,
    out: &mut AnyContext,
) -> u32
    ensures { DumpHandsOut result out.old out.new
        (any_context machine bytes.now location.now out.old) }
{
    match machine {
        X64_MACHINE => hand_out_dump(context_x64_at(bytes, location), &mut out.x64),
        ARM64_MACHINE => hand_out_dump(context_arm64_at(bytes, location), &mut out.arm64),
        _ => number_of_dump(&DumpError::Machine(machine)),
    }
}
