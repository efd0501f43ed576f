//! Packed unwind data: an entry of the function table that has no unwind record, since its prolog is a canonical one.
//!
//! The fields say how many registers the prolog saves, from x19 and from d8 on, whether it stores x0 to x7, saves the link
//! register or sets up a frame chain, and the size of the frame. [Microsoft's
//! page](https://learn.microsoft.com/cpp/build/arm64-exception-handling#packed-unwind-data) has the table of canonical prologs,
//! with the unwind code of each instruction. Its names stand in parentheses here.

ghost use Rattle.std.specs.Prelude.{◌≡◌, ◌≤◌, ◌<◌, ◌+◌, ◌*◌, ◌/◌, ◌==◌, ◌||◌, nat_lt, not, [], ◌∷◌};
ghost use Rattle.pe_unwind.specs.Arm64Words.{bits};
ghost use Rattle.pe_frame.specs.Arm64CodeLists.{Adds};
ghost use Rattle.pe_frame.specs.Arm64Packed.{float_count, packed_frame, is_chained, sign_codes, integer_pair, integer_pairs, single_register, last_integers, alone_codes, float_pair, float_pairs, last_float, home_codes, allocation, local_codes, frame_codes, point_codes, freed_codes, saved_codes, canonical_codes, epilog_codes, packed_codes, packed_length, is_canonical};

use super::code_list::CodeList;
use super::registers::LINK_REGISTER;
use pe_unwind::{
    ARM64_PDATA_CR_CHAINED_WITH_PAC, ARM64_PDATA_CR_UNCHAINED_SAVED_LR,
    ARM64_PDATA_PACKED_UNWIND_FRAGMENT, ARM64_PDATA_PACKED_UNWIND_FUNCTION, Arm64RuntimeFunction,
    Arm64UnwindCode,
};

/// The most integer registers that are saved, x19 to x28.
const MOST_INTEGERS: u32 = 10;

/// The numbers of the first registers that are saved, x19 and d8.
const FIRST_INTEGER: u8 = 19;

const FIRST_FLOAT: u8 = 8;

/// The bytes of x0 to x7, and of x29 and the link register.
const SIZE_OF_HOMES: u32 = 64;

const SIZE_OF_CHAIN: u32 = 16;

/// The most bytes that the first instruction of an allocation takes, and that a preindexed store does.
const FIRST_ALLOCATION: u32 = 4080;

const MOST_PREINDEXED: u32 = 512;

/// The bytes of a pair of registers on the stack.
const SIZE_OF_PAIR: u32 = 16;

/// `alloc_s` has fewer bytes than this.
const END_OF_SMALL: u32 = 512;

/// The fields of packed unwind data, and the sizes that follow from them, in bytes.
#[derive(Clone, Copy)]
pub(crate) struct PackedFrame {
    /// How many integer registers are saved, from x19 on (RegI).
    integers: u32,
    /// How many floating-point registers are saved, from d8 on.
    floats: u32,
    /// Whether x0 to x7 are stored (H).
    homes: bool,
    /// What is done with the link register (CR).
    cr: u32,
    /// The size of the integer registers, with the link register if that is saved among them (intsz).
    integer_size: u32,
    /// The size of all that is saved there, a multiple of 16 (savsz).
    saved_size: u32,
    /// The size of the rest of the frame (locsz), or 0 if the frame is smaller than what is saved.
    local_size: u32,
}

/// The frame that packed unwind data describe.
fn packed_frame(function: &Arm64RuntimeFunction) -> PackedFrame
    ensures value { result ≡ packed_frame function.now.unwind_data }
    ensures integers { result.integers ≤ 15 }
    ensures floats { result.floats ≤ 8 }
    ensures sizes { result.integer_size ≤ 128 }
{
    let floats = if function.reg_f() == 0 {
        0
    } else {
        function.reg_f() + 1
    };
    let link = if function.cr() == ARM64_PDATA_CR_UNCHAINED_SAVED_LR {
        8
    } else {
        0
    };
    let integer_size = 8 * function.reg_i() + link;
    let homes = if function.h() { SIZE_OF_HOMES } else { 0 };
    let saved_size = (integer_size + 8 * floats + homes + 15) / 16 * 16;
    PackedFrame {
        integers: function.reg_i(),
        floats,
        homes: function.h(),
        cr: function.cr(),
        integer_size,
        saved_size,
        local_size: function.frame_size().saturating_sub(saved_size),
    }
}

impl PackedFrame {
    /// Whether x29 and the link register are saved, and x29 is set.
    fn is_chained(&self) -> bool
        ensures { result ≡ is_chained self.now }
    {
        ARM64_PDATA_CR_CHAINED_WITH_PAC <= self.cr
    }
}

impl PackedFrame {
    /// Adds the code of the signature.
    fn push_signature(&self, codes: &mut CodeList)
        ensures { Adds codes.old codes.new (sign_codes self.now) }
    {
        if self.cr == ARM64_PDATA_CR_CHAINED_WITH_PAC {
            codes.push(Arm64UnwindCode::PacSignLr);
        }
    }

    /// The code of a pair of integer registers, by how many pairs are below it.
    fn integer_pair(&self, index: u32) -> Arm64UnwindCode
        requires { index ≤ 7 }
        ensures { result ≡ integer_pair self.now index }
    {
        if index == 0 {
            Arm64UnwindCode::SaveRegPairPreindexed {
                first_reg: FIRST_INTEGER,
                offset_bytes: self.saved_size,
            }
        } else {
            Arm64UnwindCode::SaveRegPair {
                first_reg: FIRST_INTEGER + 2 * index as u8,
                offset_bytes: SIZE_OF_PAIR * index,
            }
        }
    }

    /// Adds the codes of the pairs of integer registers.
    fn push_integer_pairs(&self, codes: &mut CodeList)
        requires { self.now.integers ≤ 15 }
        ensures { Adds codes.old codes.new (integer_pairs self.now (self.now.integers / 2)) }
    {
        let mut index = self.integers / 2;
        while index > 0 {
            index -= 1;
            codes.push(self.integer_pair(index));
        }
    }

    /// The code of one integer register after so many pairs.
    fn single_register(&self, reg: u8, pairs: u32) -> Arm64UnwindCode
        requires { pairs ≤ 7 }
        ensures { result ≡ single_register self.now reg pairs }
    {
        if pairs == 0 {
            Arm64UnwindCode::SaveRegPreindexed {
                reg,
                offset_bytes: self.saved_size,
            }
        } else {
            Arm64UnwindCode::SaveReg {
                reg,
                offset_bytes: SIZE_OF_PAIR * pairs,
            }
        }
    }

    /// Adds the code of what is after the pairs of integer registers: one more of them, the link register, or both.
    fn push_last_integers(&self, codes: &mut CodeList)
        requires { self.now.integers ≤ 15 }
        ensures { Adds codes.old codes.new (last_integers self.now (self.now.integers / 2)) }
    {
        let pairs = self.integers / 2;
        let first_reg = FIRST_INTEGER + 2 * pairs as u8;
        let saves_link = self.cr == ARM64_PDATA_CR_UNCHAINED_SAVED_LR;
        if self.integers % 2 == 1 {
            if saves_link {
                codes.push(Arm64UnwindCode::SaveLrPair {
                    first_reg,
                    offset_bytes: SIZE_OF_PAIR * pairs,
                });
            } else {
                codes.push(self.single_register(first_reg, pairs));
            }
        } else if saves_link {
            codes.push(self.single_register(LINK_REGISTER as u8, pairs));
        }
    }

    /// Adds the code that moves the stack pointer where x19 and the link register alone are stored, which no code does.
    fn push_alone(&self, codes: &mut CodeList)
        ensures { Adds codes.old codes.new (alone_codes self.now) }
    {
        if self.integers == 1 && self.cr == ARM64_PDATA_CR_UNCHAINED_SAVED_LR {
            codes.push(Arm64UnwindCode::AllocSmall {
                size_bytes: self.saved_size,
            });
        }
    }

    /// The code of a pair of floating-point registers, by how many pairs are below it.
    fn float_pair(&self, index: u32) -> Arm64UnwindCode
        requires few { index ≤ 4 }
        requires small { self.now.integer_size ≤ 128 }
        ensures { result ≡ float_pair self.now index }
    {
        if self.integer_size + index == 0 {
            Arm64UnwindCode::SaveFRegPairPreindexed {
                first_reg: FIRST_FLOAT,
                offset_bytes: self.saved_size,
            }
        } else {
            Arm64UnwindCode::SaveFRegPair {
                first_reg: FIRST_FLOAT + 2 * index as u8,
                offset_bytes: self.integer_size + SIZE_OF_PAIR * index,
            }
        }
    }

    /// Adds the codes of the pairs of floating-point registers.
    fn push_float_pairs(&self, codes: &mut CodeList)
        requires few { self.now.floats ≤ 8 }
        requires small { self.now.integer_size ≤ 128 }
        ensures { Adds codes.old codes.new (float_pairs self.now (self.now.floats / 2)) }
    {
        let mut index = self.floats / 2;
        while index > 0 {
            index -= 1;
            codes.push(self.float_pair(index));
        }
    }

    /// Adds the code of the floating-point register after the pairs.
    fn push_last_float(&self, codes: &mut CodeList)
        requires few { self.now.floats ≤ 8 }
        requires small { self.now.integer_size ≤ 128 }
        ensures { Adds codes.old codes.new (last_float self.now (self.now.floats / 2)) }
    {
        let pairs = self.floats / 2;
        if self.floats % 2 == 1 {
            codes.push(Arm64UnwindCode::SaveFReg {
                reg: FIRST_FLOAT + 2 * pairs as u8,
                offset_bytes: self.integer_size + SIZE_OF_PAIR * pairs,
            });
        }
    }

    /// Adds the codes of x0 to x7, of which the first pair moves the stack pointer if no other register does.
    fn push_homes(&self, codes: &mut CodeList)
        requires few { self.now.floats ≤ 8 }
        requires small { self.now.integer_size ≤ 128 }
        ensures { Adds codes.old codes.new (home_codes self.now) }
    {
        if !self.homes {
            return;
        }
        codes.push(Arm64UnwindCode::Nop);
        codes.push(Arm64UnwindCode::Nop);
        codes.push(Arm64UnwindCode::Nop);
        if self.integer_size + self.floats == 0 {
            codes.push(Arm64UnwindCode::AllocSmall {
                size_bytes: self.saved_size,
            });
        } else {
            codes.push(Arm64UnwindCode::Nop);
        }
    }

    /// Adds the codes of the allocation of the rest of the frame.
    fn push_locals(&self, codes: &mut CodeList)
        ensures { Adds codes.old codes.new (local_codes self.now.local_size) }
    {
        if self.local_size == 0 {
            return;
        }
        if self.local_size <= FIRST_ALLOCATION {
            codes.push(allocation(self.local_size));
            return;
        }
        codes.push(allocation(self.local_size - FIRST_ALLOCATION));
        codes.push(Arm64UnwindCode::AllocMedium {
            size_bytes: FIRST_ALLOCATION,
        });
    }

    /// Adds the codes of the rest of the frame, in which x29 and the link register are saved if it is chained.
    fn push_frame(&self, codes: &mut CodeList)
        ensures { Adds codes.old codes.new (frame_codes self.now) }
    {
        if !self.is_chained() {
            self.push_locals(codes);
        } else if self.local_size <= MOST_PREINDEXED {
            codes.push(Arm64UnwindCode::SaveFpLrPreindexed {
                offset_bytes: self.local_size,
            });
        } else {
            codes.push(Arm64UnwindCode::SaveFpLr { offset_bytes: 0 });
            self.push_locals(codes);
        }
    }

    /// Adds the code of the frame chain.
    fn push_point(&self, codes: &mut CodeList)
        ensures { Adds codes.old codes.new (point_codes self.now) }
    {
        if self.is_chained() {
            codes.push(Arm64UnwindCode::SetFp);
        }
    }

    /// Adds the code that frees the bytes of x0 to x7, where no other register is saved.
    fn push_freed(&self, codes: &mut CodeList)
        requires few { self.now.floats ≤ 8 }
        requires small { self.now.integer_size ≤ 128 }
        ensures { Adds codes.old codes.new (freed_codes self.now) }
    {
        if self.homes && self.integer_size + self.floats == 0 {
            codes.push(Arm64UnwindCode::AllocSmall {
                size_bytes: self.saved_size,
            });
        }
    }

    /// Adds the codes of all registers that are saved below the rest of the frame.
    fn push_saved(&self, codes: &mut CodeList)
        requires integers { self.now.integers ≤ 15 }
        requires few { self.now.floats ≤ 8 }
        requires small { self.now.integer_size ≤ 128 }
        ensures { Adds codes.old codes.new (saved_codes self.now) }
    {
        self.push_last_float(codes);
        self.push_float_pairs(codes);
        self.push_last_integers(codes);
        self.push_integer_pairs(codes);
        self.push_alone(codes);
        self.push_signature(codes);
    }

    /// Adds the codes of the canonical prolog.
    fn push_prolog(&self, codes: &mut CodeList)
        requires integers { self.now.integers ≤ 15 }
        requires few { self.now.floats ≤ 8 }
        requires small { self.now.integer_size ≤ 128 }
        ensures { Adds codes.old codes.new (canonical_codes self.now) }
    {
        self.push_point(codes);
        self.push_frame(codes);
        self.push_homes(codes);
        self.push_saved(codes);
    }

    /// Adds the codes of the canonical epilog.
    fn push_epilog(&self, codes: &mut CodeList)
        requires integers { self.now.integers ≤ 15 }
        requires few { self.now.floats ≤ 8 }
        requires small { self.now.integer_size ≤ 128 }
        ensures { Adds codes.old codes.new (epilog_codes self.now) }
    {
        self.push_frame(codes);
        self.push_freed(codes);
        self.push_saved(codes);
    }
}

/// The code of an allocation.
fn allocation(size_bytes: u32) -> Arm64UnwindCode
    ensures { result ≡ allocation size_bytes }
{
    if size_bytes < END_OF_SMALL {
        Arm64UnwindCode::AllocSmall { size_bytes }
    } else {
        Arm64UnwindCode::AllocMedium { size_bytes }
    }
}

/// Whether packed unwind data have a canonical prolog.
pub(crate) fn is_canonical(function: &Arm64RuntimeFunction) -> bool
    ensures { result ≡ is_canonical function.now.unwind_data }
{
    let flag = function.flag();
    let packed = packed_frame(function);
    let chain = if packed.is_chained() {
        SIZE_OF_CHAIN
    } else {
        0
    };
    let is_packed = flag == ARM64_PDATA_PACKED_UNWIND_FUNCTION
        || flag == ARM64_PDATA_PACKED_UNWIND_FRAGMENT;
    is_packed
        && packed.integers <= MOST_INTEGERS
        && packed.saved_size + chain <= function.frame_size()
}

/// The unwind codes that packed unwind data stand for.
pub(crate) fn packed_codes(function: &Arm64RuntimeFunction) -> CodeList
    ensures { Adds [] result (packed_codes function.now.unwind_data) }
{
    let mut codes = CodeList::new();
    if function.flag() == ARM64_PDATA_PACKED_UNWIND_FRAGMENT {
        codes.push(Arm64UnwindCode::EndC);
    }
    packed_frame(function).push_prolog(&mut codes);
    codes
}

/// The unwind codes of the canonical epilog.
pub(crate) fn epilog_codes(function: &Arm64RuntimeFunction) -> CodeList
    ensures { Adds [] result (epilog_codes (packed_frame function.now.unwind_data)) }
{
    let mut codes = CodeList::new();
    packed_frame(function).push_epilog(&mut codes);
    codes
}

/// How many instructions the prolog has, by how many codes there are: a fragment has none.
pub(crate) fn packed_length(function: &Arm64RuntimeFunction, count: usize) -> usize
    ensures value { result ≡ packed_length function.now.unwind_data count }
    ensures few { result ≤ count }
{
    if function.flag() == ARM64_PDATA_PACKED_UNWIND_FRAGMENT {
        0
    } else {
        count
    }
}

/// Whether a place of a function is after its prolog, which has so many instructions. A fragment has neither prolog nor epilog.
pub(crate) fn has_ended(function: &Arm64RuntimeFunction, length: usize, place: u32) -> bool
    ensures { result ≡ not (bits function.now.unwind_data 0 2 == 2 || nat_lt place length) }
{
    function.flag() != ARM64_PDATA_PACKED_UNWIND_FRAGMENT && length <= place as usize
}
