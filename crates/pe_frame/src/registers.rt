//! The registers that unwinding restores.

/// The number of the stack pointer among the integer registers, and that of the register that is a frame pointer by custom.
pub(crate) const RSP: usize = 4;

pub(crate) const RBP: usize = 5;

/// The registers of a thread that a step restores. Flags and segment registers are not among them.
#[derive(Clone, Copy, Debug, PartialEq)]
pub struct Registers {
    /// The integer registers by their numbers in unwind data: rax, rcx, rdx, rbx, rsp, rbp, rsi, rdi, r8 to r15. So
    /// `general[4]` is the stack pointer.
    pub general: [u64; 16],
    /// The XMM registers, xmm0 to xmm15.
    pub xmm: [u128; 16],
    /// The instruction pointer.
    pub rip: u64,
}
