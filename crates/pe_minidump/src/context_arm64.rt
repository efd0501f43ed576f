//! The context of a thread on ARM64 (`ARM64_NT_CONTEXT`), 912 bytes. Its flags say which parts were saved, as on x64; the
//! bit of the floating point registers is another one. Old versions of Breakpad wrote contexts of another layout, with flags
//! 80000000h: these have 796 bytes, and are refused as too small.
//!
//! <https://learn.microsoft.com/windows/win32/api/winnt/ns-winnt-arm64_nt_context>

ghost use Rattle.std.specs.Prelude.{◌≡◌, ◌+◌, ◌*◌, ◌≤◌, length};
ghost use Rattle.pe_core.specs.Bytes.{le};
ghost use Rattle.pe_core.specs.Rows.{each};
ghost use Rattle.pe_minidump.specs.Contexts.{context_arm64};
ghost use Rattle.pe_minidump.specs.Refusals.{DumpReturns};

use crate::context_bytes::{read_u128, require_context};
use crate::error::{DumpError, Result};
use pe_core::{read_u32, read_u64};

/// The size of a context in bytes.
const SIZE_OF_CONTEXT: usize = 912;

/// `CONTEXT_ARM64`: the context is one of ARM64.
const CONTEXT_ARM64: u32 = 0x0040_0000;

/// `CONTEXT_ARM64_CONTROL` and `CONTEXT_ARM64_INTEGER` without the bit of the machine.
const CONTROL_AND_INTEGER: u32 = 3;

/// `CONTEXT_ARM64_FLOATING_POINT` without the bit of the machine.
const FLOATING_POINT: u32 = 4;

/// The registers of a thread on ARM64.
#[derive(Clone, Copy)]
pub struct ContextArm64 {
    /// Which parts were saved, `CONTEXT_ARM64_*`.
    pub context_flags: u32,
    /// The flags of the processor.
    pub cpsr: u32,
    /// The integer registers x0 to x30: x29 is the frame pointer, x30 the link register.
    pub x: [u64; 31],
    /// The stack pointer.
    pub sp: u64,
    /// The program counter.
    pub pc: u64,
    /// The vector registers, v0 to v31, if they were saved.
    pub v: Option<[u128; 32]>,
}

/// The integer registers of a context that is known to have them.
#[tactic(auto, using(std::proofs::lemmas::List::take_more_set), unfolding(pe_core::specs::Rows::each))]
fn integers_of(bytes: &[u8]) -> [u64; 31]
    requires { 912 ≤ length bytes.now }
    ensures { result ≡ each (λ k. le bytes.now (8 + 8 * k) 8) 31 }
{
    let mut registers = [0; 31];
    for k in 0..31 {
        registers[k] = read_u64(bytes, 8 + 8 * k);
    }
    registers
}

/// The vector registers of a context that is known to have them.
#[tactic(auto, using(std::proofs::lemmas::List::take_more_set), unfolding(pe_core::specs::Rows::each))]
fn vectors_of(bytes: &[u8]) -> [u128; 32]
    requires { 912 ≤ length bytes.now }
    ensures { result ≡ each (λ k. le bytes.now (272 + 16 * k) 16) 32 }
{
    let mut registers = [0; 32];
    for k in 0..32 {
        registers[k] = read_u128(bytes, 272 + 16 * k);
    }
    registers
}

impl ContextArm64 {
    /// The registers that a context of ARM64 has. Errors, in order: `ContextSize` if it has fewer than 912 bytes, as that of
    /// a thread without a context, and one of x86; `Machine` if the flags do not have the bit `CONTEXT_ARM64`, 400000h;
    /// `ContextFlags` if control or integer registers were not saved. Bits of other machines are not looked at: of which
    /// machine the contexts of a dump are says `processor_architecture` of `SystemInfo`.
    #[tactic(auto, unfolding(crate::specs::Contexts::context_arm64))]
    pub fn parse(bytes: &[u8]) -> Result<ContextArm64>
        ensures { DumpReturns (λ c. c) result (context_arm64 bytes.now) }
    {
        require_context(bytes, SIZE_OF_CONTEXT)?;
        let context_flags = read_u32(bytes, 0);
        if context_flags / CONTEXT_ARM64 % 2 == 0 {
            return Err(DumpError::Machine(context_flags));
        }
        if context_flags % 4 != CONTROL_AND_INTEGER {
            return Err(DumpError::ContextFlags(context_flags));
        }
        let has_vectors = context_flags / FLOATING_POINT % 2 == 1;
        Ok(ContextArm64 {
            context_flags,
            cpsr: read_u32(bytes, 4),
            x: integers_of(bytes),
            sp: read_u64(bytes, 256),
            pc: read_u64(bytes, 264),
            v: if has_vectors {
                Some(vectors_of(bytes))
            } else {
                None
            },
        })
    }
}
