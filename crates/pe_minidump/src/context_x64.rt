//! The context of a thread on x64 (`CONTEXT`), 1,232 bytes, after which AVX registers may follow. Its flags say which parts were
//! saved: `CONTEXT_CONTROL` the instruction pointer and the stack pointer, `CONTEXT_INTEGER` the other integer registers,
//! `CONTEXT_FLOATING_POINT` the XMM registers. A stack walk starts from these.
//!
//! <https://learn.microsoft.com/windows/win32/api/winnt/ns-winnt-context>

ghost use Rattle.std.specs.Prelude.{◌≡◌, ◌+◌, ◌*◌, ◌≤◌, length};
ghost use Rattle.pe_core.specs.Bytes.{le};
ghost use Rattle.pe_core.specs.Rows.{each};
ghost use Rattle.pe_minidump.specs.Contexts.{context_x64};
ghost use Rattle.pe_minidump.specs.Refusals.{DumpReturns};

use crate::context_bytes::{read_u128, require_context};
use crate::error::{DumpError, Result};
use pe_core::{read_u32, read_u64};

/// The size of a context in bytes.
const SIZE_OF_CONTEXT: usize = 1232;

/// `CONTEXT_AMD64`: the context is one of x64.
const CONTEXT_AMD64: u32 = 0x0010_0000;

/// `CONTEXT_CONTROL` and `CONTEXT_INTEGER` without the bit of the machine.
const CONTROL_AND_INTEGER: u32 = 3;

/// `CONTEXT_FLOATING_POINT` without the bit of the machine.
const FLOATING_POINT: u32 = 8;

/// The registers of a thread on x64.
#[derive(Clone, Copy)]
pub struct ContextX64 {
    /// Which parts were saved, `CONTEXT_*`.
    pub context_flags: u32,
    /// The flags of the processor.
    pub eflags: u32,
    /// The integer registers by their numbers in unwind data: rax, rcx, rdx, rbx, rsp, rbp, rsi, rdi, r8 to r15.
    pub general: [u64; 16],
    /// The instruction pointer.
    pub rip: u64,
    /// The XMM registers, xmm0 to xmm15, if they were saved.
    pub xmm: Option<[u128; 16]>,
}

/// The integer registers of a context that is known to have them.
#[tactic(auto, using(std::proofs::lemmas::List::take_more_set), unfolding(pe_core::specs::Rows::each))]
fn general_of(bytes: &[u8]) -> [u64; 16]
    requires { 1232 ≤ length bytes.now }
    ensures { result ≡ each (λ k. le bytes.now (120 + 8 * k) 8) 16 }
{
    let mut registers = [0; 16];
    for k in 0..16 {
        registers[k] = read_u64(bytes, 120 + 8 * k);
    }
    registers
}

/// The XMM registers of a context that is known to have them.
#[tactic(auto, using(std::proofs::lemmas::List::take_more_set), unfolding(pe_core::specs::Rows::each))]
fn xmm_of(bytes: &[u8]) -> [u128; 16]
    requires { 1232 ≤ length bytes.now }
    ensures { result ≡ each (λ k. le bytes.now (416 + 16 * k) 16) 16 }
{
    let mut registers = [0; 16];
    for k in 0..16 {
        registers[k] = read_u128(bytes, 416 + 16 * k);
    }
    registers
}

impl ContextX64 {
    /// The registers that a context of x64 has. Errors, in order: `ContextSize` if it has fewer than 1,232 bytes, as that of
    /// a thread without a context, and those of x86 and ARM64; `Machine` if the flags do not have the bit `CONTEXT_AMD64`,
    /// 100000h; `ContextFlags` if control or integer registers were not saved. Bits of other machines are not looked at: of
    /// which machine the contexts of a dump are says `processor_architecture` of `SystemInfo`.
    #[tactic(auto, unfolding(crate::specs::Contexts::context_x64))]
    pub fn parse(bytes: &[u8]) -> Result<ContextX64>
        ensures { DumpReturns (λ c. c) result (context_x64 bytes.now) }
    {
        require_context(bytes, SIZE_OF_CONTEXT)?;
        let context_flags = read_u32(bytes, 48);
        if context_flags / CONTEXT_AMD64 % 2 == 0 {
            return Err(DumpError::Machine(context_flags));
        }
        if context_flags % 4 != CONTROL_AND_INTEGER {
            return Err(DumpError::ContextFlags(context_flags));
        }
        let has_xmm = context_flags / FLOATING_POINT % 2 == 1;
        Ok(ContextX64 {
            context_flags,
            eflags: read_u32(bytes, 68),
            general: general_of(bytes),
            rip: read_u64(bytes, 248),
            xmm: if has_xmm { Some(xmm_of(bytes)) } else { None },
        })
    }
}
