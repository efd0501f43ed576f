//! The numbers of registers by which definitions name them.

ghost use Rattle.std.specs.Prelude.{◌≡◌};
ghost use Rattle.pe_frame.specs.declared.arm64.registers.TheConstants.{FRAME_POINTER, LINK_REGISTER};
ghost use Rattle.pe_frame.specs.declared.registers.TheConstants.{RSP, RBP};

/// The stack pointer and the register that is a frame pointer by custom among the integer registers of x64; the frame pointer and the link register among those of ARM64.
pub fn constants_of_registers()
    ensures rsp { RSP ≡ 4 }
    ensures rbp { RBP ≡ 5 }
    ensures frame_pointer { FRAME_POINTER ≡ 29 }
    ensures link_register { LINK_REGISTER ≡ 30 }
{}
