//! The registers that unwinding restores on ARM64.

/// The number of the frame pointer among the integer registers, and that of the link register.
pub(crate) const FRAME_POINTER: usize = 29;

pub(crate) const LINK_REGISTER: usize = 30;

/// The registers of a thread that a step restores. The flags, the other floating-point registers and the upper halves of
/// vectors are not among them: a function does not preserve them.
#[derive(Clone, Copy, Debug, PartialEq)]
pub struct Arm64Registers {
    /// The integer registers, x0 to x30. `general[29]` is the frame pointer, `general[30]` the link register, in which a call
    /// leaves its return address.
    pub general: [u64; 31],
    /// The floating-point registers d8 to d15, which are the low 64 bits of v8 to v15.
    pub float: [u64; 8],
    /// The stack pointer.
    pub sp: u64,
    /// The instruction pointer.
    pub pc: u64,
}
