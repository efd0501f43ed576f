//! Registers of x64, by the numbers that unwind codes use. Numbers:
//! [x64 exception handling](https://learn.microsoft.com/cpp/build/exception-handling-x64).

use std::fmt;

/// A register by its number: 0 to 15 are the integer registers as unwind codes number them, 16 is the instruction
/// pointer, 17 to 32 are the XMM registers.
#[derive(Clone, Copy, Debug, PartialEq, Eq, PartialOrd, Ord)]
pub struct Register(pub u8);

impl Register {
    ghost use Rattle.std.specs.Prelude.{◌≡◌};
    ghost use Rattle.pe_unwind.specs.Registers.{register_name};

    /// The register's name, such as `$rax`. Empty if no register has the number.
    #[tactic(auto, unfolding(crate::specs::Registers::register_name))]
    pub fn name(self) -> &'static str
        ensures { result.now ≡ register_name self.0 }
    {
        match self.0 {
            0 => "$rax",
            1 => "$rcx",
            2 => "$rdx",
            3 => "$rbx",
            4 => "$rsp",
            5 => "$rbp",
            6 => "$rsi",
            7 => "$rdi",
            8 => "$r8",
            9 => "$r9",
            10 => "$r10",
            11 => "$r11",
            12 => "$r12",
            13 => "$r13",
            14 => "$r14",
            15 => "$r15",
            16 => "$rip",
            17 => "$xmm0",
            18 => "$xmm1",
            19 => "$xmm2",
            20 => "$xmm3",
            21 => "$xmm4",
            22 => "$xmm5",
            23 => "$xmm6",
            24 => "$xmm7",
            25 => "$xmm8",
            26 => "$xmm9",
            27 => "$xmm10",
            28 => "$xmm11",
            29 => "$xmm12",
            30 => "$xmm13",
            31 => "$xmm14",
            32 => "$xmm15",
            _ => "",
        }
    }
}

impl fmt::Display for Register {
    ghost use Rattle.std.specs.Prelude.{Some};
    ghost use Rattle.pe_unwind.specs.Registers.{register_name};

    ghost output = { λ r. Some (register_name r.0) };

    fn fmt<W: fmt::Write>(&self, f: &mut fmt::Formatter<W>) -> fmt::Result {
        f.write_str(self.name())
    }
}
