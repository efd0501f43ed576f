//! The codes of one prolog, without an allocation.

ghost use Rattle.std.specs.Prelude.{◌≡◌, ◌≤◌, List, [], ◌∷◌, length, take};
ghost use Rattle.pe_unwind.specs.declared.arm64.codes.Arm64UnwindCode.{Arm64UnwindCode};
ghost use Rattle.pe_frame.specs.Arm64CodeLists.{Adds};

use pe_unwind::Arm64UnwindCode;
use std::marker::Model;

/// The most codes that a list has. Each part of a canonical prolog at its longest, they are 22.
const MOST_CODES: usize = 24;

/// Unwind codes, the last instruction first.
#[derive(Drop)]
pub(crate) struct CodeList {
    codes: [Arm64UnwindCode; MOST_CODES],
    count: usize,
}

impl Model for CodeList {
    ghost Value = { List Arm64UnwindCode };

    ghost view = { λ l. take l.count l.codes };

    ghost invariant = { λ l. l.count ≤ 24 };
}

impl CodeList {
    /// A list without codes.
    pub(crate) fn new() -> CodeList
        ensures { result ≡ [] }
    {
        CodeList {
            codes: [Arm64UnwindCode::Nop; MOST_CODES],
            count: 0,
        }
    }

    /// Adds a code after the others, if there is room for it.
    pub(crate) fn push(&mut self, code: Arm64UnwindCode)
        ensures { Adds self.old self.new (code ∷ []) }
    {
        if self.count < MOST_CODES {
            self.codes[self.count] = code;
            self.count += 1;
        }
    }

    /// The codes.
    pub(crate) fn as_slice(&self) -> &[Arm64UnwindCode]
        ensures value { result.now ≡ self.now }
        ensures few { length result.now ≤ 24 }
    {
        &self.codes[..self.count]
    }
}
