//! ARM64 unwind codes: what a prolog or an epilog did, one code for each instruction. A code has 1 to 5 bytes; its
//! numbers have their highest byte first. A caller iterates over the codes of a record up to `End` and undoes them.
//! The table of codes: [ARM64 exception handling](https://learn.microsoft.com/cpp/build/arm64-exception-handling).

ghost use Rattle.std.specs.Prelude.{◌≡◌, ◌≢◌, ◌+◌, ◌-◌, ◌*◌, ◌/◌, ◌%◌, ◌^◌, ◌<◌, ◌≤◌, ◌⊎◌, ℕ, [], ◌∷◌, length, IfSome, IfNone, Some};
ghost use Rattle.std.specs.Iterator.{at_most, UpTo};
ghost use Rattle.std.specs.Iterator.SizeHint.{IsWithinCount};
ghost use Rattle.pe_unwind.specs.Arm64Encoding.{encoding, StartsWithArm64Code, StartsWithNoArm64Code};
ghost use Rattle.pe_unwind.specs.Arm64CodeLengths.{Encodes, len_at};

use pe_core::{Error, Reason, Result};

/// What the operating system put on the stack.
#[derive(Clone, Copy, Debug, PartialEq, Eq)]
pub enum Arm64CustomStackCase {
    /// A trap frame (`MSFT_OP_TRAP_FRAME`).
    TrapFrame,
    /// A machine frame (`MSFT_OP_MACHINE_FRAME`).
    MachineFrame,
    /// A context record (`MSFT_OP_CONTEXT`).
    Context,
    /// A context record of ARM64EC (`MSFT_OP_EC_CONTEXT`).
    EcContext,
    /// Clears the mark of an unwind to a call (`MSFT_OP_CLEAR_UNWOUND_TO_CALL`).
    ClearUnwoundToCall,
}

/// What one instruction did. Integer registers count from `x0`, floating-point registers from `d0`. Sizes and offsets
/// are in bytes; an offset counts from the stack pointer. A preindexed store first moves the stack pointer down by its
/// offset; `SaveAnyReg` says more on its own offset. Names in parentheses are those of Microsoft's table.
#[derive(Clone, Copy, Debug, PartialEq, Eq)]
pub enum Arm64UnwindCode {
    /// Allocated stack, less than 512 bytes (`alloc_s`).
    AllocSmall {
        /// The size in bytes, a multiple of 16.
        size_bytes: u32,
    },
    /// Saved `x19` and `x20`, preindexed (`save_r19r20_x`).
    SaveR19R20Preindexed {
        /// In bytes: a multiple of 8, at most 248.
        offset_bytes: u32,
    },
    /// Saved `x29` and the link register (`save_fplr`).
    SaveFpLr {
        /// In bytes: a multiple of 8, at most 504.
        offset_bytes: u32,
    },
    /// Saved `x29` and the link register, preindexed (`save_fplr_x`).
    SaveFpLrPreindexed {
        /// In bytes: a multiple of 8, from 8 to 512.
        offset_bytes: u32,
    },
    /// Allocated stack, less than 32,768 bytes (`alloc_m`).
    AllocMedium {
        /// The size in bytes, a multiple of 16.
        size_bytes: u32,
    },
    /// Saved an integer register and the next one (`save_regp`).
    SaveRegPair {
        /// The first of the two, from 19 to 34.
        first_reg: u8,
        /// In bytes: a multiple of 8, at most 504.
        offset_bytes: u32,
    },
    /// Saved an integer register and the next one, preindexed (`save_regp_x`).
    SaveRegPairPreindexed {
        /// The first of the two, from 19 to 34.
        first_reg: u8,
        /// In bytes: a multiple of 8, from 8 to 512.
        offset_bytes: u32,
    },
    /// Saved an integer register (`save_reg`).
    SaveReg {
        /// The register, from 19 to 34.
        reg: u8,
        /// In bytes: a multiple of 8, at most 504.
        offset_bytes: u32,
    },
    /// Saved an integer register, preindexed (`save_reg_x`).
    SaveRegPreindexed {
        /// The register, from 19 to 34.
        reg: u8,
        /// In bytes: a multiple of 8, from 8 to 256.
        offset_bytes: u32,
    },
    /// Saved an integer register and the link register (`save_lrpair`).
    SaveLrPair {
        /// The integer register: 19, 21 and so on to 33.
        first_reg: u8,
        /// In bytes: a multiple of 8, at most 504.
        offset_bytes: u32,
    },
    /// Saved a floating-point register and the next one (`save_fregp`).
    SaveFRegPair {
        /// The first of the two, from 8 to 15.
        first_reg: u8,
        /// In bytes: a multiple of 8, at most 504.
        offset_bytes: u32,
    },
    /// Saved a floating-point register and the next one, preindexed (`save_fregp_x`).
    SaveFRegPairPreindexed {
        /// The first of the two, from 8 to 15.
        first_reg: u8,
        /// In bytes: a multiple of 8, from 8 to 512.
        offset_bytes: u32,
    },
    /// Saved a floating-point register (`save_freg`).
    SaveFReg {
        /// The register, from 8 to 15.
        reg: u8,
        /// In bytes: a multiple of 8, at most 504.
        offset_bytes: u32,
    },
    /// Saved a floating-point register, preindexed (`save_freg_x`).
    SaveFRegPreindexed {
        /// The register, from 8 to 15.
        reg: u8,
        /// In bytes: a multiple of 8, from 8 to 256.
        offset_bytes: u32,
    },
    /// Allocated stack for scalable vectors (`alloc_z`).
    AllocZ {
        /// How many vectors.
        count: u8,
    },
    /// Allocated stack, less than 268,435,456 bytes (`alloc_l`).
    AllocLarge {
        /// The size in bytes, a multiple of 16.
        size_bytes: u32,
    },
    /// Set `x29` to the stack pointer (`set_fp`).
    SetFp,
    /// Set `x29` to an address above the stack pointer (`add_fp`).
    AddFp {
        /// The code's second byte.
        imm8: u8,
        /// How far above, in bytes: 8 times that byte.
        offset_bytes: u32,
    },
    /// Did nothing that is to be undone (`nop`).
    Nop,
    /// The end of the codes of a function or an epilog (`end`).
    End,
    /// The end of the codes of this part of a function that is chained to another (`end_c`).
    EndC,
    /// Saved the next pair of registers (`save_next`): the pair after that of the instruction before it, whose code
    /// follows this one.
    SaveNext,
    /// Saved any register, or a pair (`save_any_reg`).
    SaveAnyReg {
        /// The kind of register: 0 integer (`x`), 1 floating-point (`d`), 2 vector (`q`).
        kind: u8,
        /// Whether the next register was saved too.
        pair: bool,
        /// Whether the store was preindexed.
        preindexed: bool,
        /// The register, from 0 to 31.
        reg: u8,
        /// In bytes: the number in the code times 16 for a pair, a preindexed store or a vector, else times 8.
        /// Assemblers that count that number from one in a preindexed store, as LLVM's does, mean 16 bytes more there.
        offset_bytes: u32,
    },
    /// Saved a scalable vector (`save_zreg`).
    SaveZReg {
        /// The register's number, from 0 to 15, as the code has it.
        r: u8,
        /// The offset's number, from 0 to 255, as the code has it.
        o: u16,
    },
    /// Saved a scalable predicate (`save_preg`).
    SavePReg {
        /// The register's number, from 0 to 15, as the code has it.
        r: u8,
        /// The offset's number, from 0 to 255, as the code has it.
        o: u16,
    },
    /// A frame of the operating system's own.
    CustomStack(Arm64CustomStackCase),
    /// Signed the link register (`pac_sign_lr`).
    PacSignLr,
    /// A reserved code, without a meaning so far.
    Reserved {
        /// The code's first byte.
        opcode: u8,
        /// The number in the bytes after the opcode, the highest byte first.
        value: u32,
        /// The size of that number in bytes, from 0 to 4.
        data_len: u8,
    },
}

/// The code of one byte.
fn one_byte_code(first: u8) -> Arm64UnwindCode
    requires pairs { first < 0xE0 → first < 0xC0 }
    requires large { first ≢ 0xE0 }
    requires add { first ≢ 0xE2 }
    requires any { first ≢ 0xE7 }
    requires reserved { 0xF8 ≤ first → 0xFC ≤ first }
    ensures { Encodes (first ∷ []) result }
{
    let byte = u32::from(first);
    match first {
        0..0x20 => Arm64UnwindCode::AllocSmall {
            size_bytes: 16 * byte,
        },
        0x20..0x40 => Arm64UnwindCode::SaveR19R20Preindexed {
            offset_bytes: 8 * (byte - 0x20),
        },
        0x40..0x80 => Arm64UnwindCode::SaveFpLr {
            offset_bytes: 8 * (byte - 0x40),
        },
        0x80..0xC0 => Arm64UnwindCode::SaveFpLrPreindexed {
            offset_bytes: 8 * (byte - 0x80) + 8,
        },
        0xE1 => Arm64UnwindCode::SetFp,
        0xE3 => Arm64UnwindCode::Nop,
        0xE4 => Arm64UnwindCode::End,
        0xE5 => Arm64UnwindCode::EndC,
        0xE6 => Arm64UnwindCode::SaveNext,
        0xE8 => Arm64UnwindCode::CustomStack(Arm64CustomStackCase::TrapFrame),
        0xE9 => Arm64UnwindCode::CustomStack(Arm64CustomStackCase::MachineFrame),
        0xEA => Arm64UnwindCode::CustomStack(Arm64CustomStackCase::Context),
        0xEB => Arm64UnwindCode::CustomStack(Arm64CustomStackCase::EcContext),
        0xEC => Arm64UnwindCode::CustomStack(Arm64CustomStackCase::ClearUnwoundToCall),
        0xFC => Arm64UnwindCode::PacSignLr,
        _ => Arm64UnwindCode::Reserved {
            opcode: first,
            value: 0,
            data_len: 0,
        },
    }
}

/// The code of two bytes that saves integer registers.
fn integer_register_code(first: u8, second: u8) -> Arm64UnwindCode
    requires low { 0xC8 ≤ first }
    requires high { first < 0xD8 }
    ensures { Encodes (first ∷ second ∷ []) result }
{
    let by_four = 4 * (first % 4) + second / 64;
    let offset_bytes = 8 * u32::from(second % 64);
    match first {
        0xC8..0xCC => Arm64UnwindCode::SaveRegPair {
            first_reg: 19 + by_four,
            offset_bytes,
        },
        0xCC..0xD0 => Arm64UnwindCode::SaveRegPairPreindexed {
            first_reg: 19 + by_four,
            offset_bytes: offset_bytes + 8,
        },
        0xD0..0xD4 => Arm64UnwindCode::SaveReg {
            reg: 19 + by_four,
            offset_bytes,
        },
        0xD4..0xD6 => Arm64UnwindCode::SaveRegPreindexed {
            reg: 19 + 8 * (first % 2) + second / 32,
            offset_bytes: 8 * u32::from(second % 32) + 8,
        },
        _ => Arm64UnwindCode::SaveLrPair {
            first_reg: 19 + 2 * (4 * (first % 2) + second / 64),
            offset_bytes,
        },
    }
}

/// The code of two bytes that saves floating-point registers.
fn float_register_code(first: u8, second: u8) -> Arm64UnwindCode
    requires low { 0xD8 ≤ first }
    requires high { first < 0xDF }
    ensures { Encodes (first ∷ second ∷ []) result }
{
    let register = 8 + 4 * (first % 2) + second / 64;
    let offset_bytes = 8 * u32::from(second % 64);
    match first {
        0xD8..0xDA => Arm64UnwindCode::SaveFRegPair {
            first_reg: register,
            offset_bytes,
        },
        0xDA..0xDC => Arm64UnwindCode::SaveFRegPairPreindexed {
            first_reg: register,
            offset_bytes: offset_bytes + 8,
        },
        0xDC..0xDE => Arm64UnwindCode::SaveFReg {
            reg: register,
            offset_bytes,
        },
        _ => Arm64UnwindCode::SaveFRegPreindexed {
            reg: 8 + second / 32,
            offset_bytes: 8 * u32::from(second % 32) + 8,
        },
    }
}

/// The code of two bytes.
fn two_byte_code(first: u8, second: u8) -> Arm64UnwindCode
    requires { ((0xC0 ≤ first) × (first < 0xE0))
        ⊎ ((first ≡ 0xE2) ⊎ (((first ≡ 0xE7) × (128 ≤ second)) ⊎ (first ≡ 0xF8))) }
    ensures { Encodes (first ∷ second ∷ []) result }
{
    match first {
        0..0xC8 => Arm64UnwindCode::AllocMedium {
            size_bytes: 16 * (256 * u32::from(first - 0xC0) + u32::from(second)),
        },
        0xC8..0xD8 => integer_register_code(first, second),
        0xD8..0xDF => float_register_code(first, second),
        0xDF => Arm64UnwindCode::AllocZ { count: second },
        0xE2 => Arm64UnwindCode::AddFp {
            imm8: second,
            offset_bytes: 8 * u32::from(second),
        },
        _ => Arm64UnwindCode::Reserved {
            opcode: first,
            value: u32::from(second),
            data_len: 1,
        },
    }
}

/// The code of E7h and two more bytes, of which the first is below 128.
fn any_register_code(second: u8, third: u8) -> Arm64UnwindCode
    requires { second < 128 }
    ensures { Encodes (0xE7 ∷ second ∷ third ∷ []) result }
{
    if 192 <= third {
        let r = second % 16;
        let o = 64 * u16::from(second / 32) + u16::from(third % 64);
        return if second % 32 < 16 {
            Arm64UnwindCode::SaveZReg { r, o }
        } else {
            Arm64UnwindCode::SavePReg { r, o }
        };
    }
    let kind = third / 64;
    let pair = second / 64 == 1;
    let preindexed = second / 32 % 2 == 1;
    let scale = if pair || preindexed || kind == 2 {
        16
    } else {
        8
    };
    Arm64UnwindCode::SaveAnyReg {
        kind,
        pair,
        preindexed,
        reg: second % 32,
        offset_bytes: scale * u32::from(third % 64),
    }
}

/// The code of three bytes.
fn three_byte_code(first: u8, second: u8, third: u8) -> Arm64UnwindCode
    requires { ((first ≡ 0xE7) × (second < 128)) ⊎ (first ≡ 0xF9) }
    ensures { Encodes (first ∷ second ∷ third ∷ []) result }
{
    if first == 0xE7 {
        any_register_code(second, third)
    } else {
        Arm64UnwindCode::Reserved {
            opcode: first,
            value: 256 * u32::from(second) + u32::from(third),
            data_len: 2,
        }
    }
}

/// The code of four bytes.
fn four_byte_code(first: u8, second: u8, third: u8, fourth: u8) -> Arm64UnwindCode
    requires { (first ≡ 0xE0) ⊎ (first ≡ 0xFA) }
    ensures { Encodes (first ∷ second ∷ third ∷ fourth ∷ []) result }
{
    let value = 65536 * u32::from(second) + 256 * u32::from(third) + u32::from(fourth);
    if first == 0xE0 {
        Arm64UnwindCode::AllocLarge {
            size_bytes: 16 * value,
        }
    } else {
        Arm64UnwindCode::Reserved {
            opcode: first,
            value,
            data_len: 3,
        }
    }
}

/// The reserved code of five bytes.
fn five_byte_code(second: u8, third: u8, fourth: u8, fifth: u8) -> Arm64UnwindCode
    ensures { Encodes (0xFB ∷ second ∷ third ∷ fourth ∷ fifth ∷ []) result }
{
    Arm64UnwindCode::Reserved {
        opcode: 0xFB,
        value: 16777216 * u32::from(second)
            + 65536 * u32::from(third)
            + 256 * u32::from(fourth)
            + u32::from(fifth),
        data_len: 4,
    }
}

/// The size in bytes of the code that starts with these two bytes.
fn code_len(first: u8, second: u8) -> usize
    ensures { result ≡ len_at first second }
{
    match first {
        0..0xC0 => 1,
        0xC0..0xE0 => 2,
        0xE0 | 0xFA => 4,
        0xE2 | 0xF8 => 2,
        0xE7 if second < 128 => 3,
        0xE7 => 2,
        0xF9 => 3,
        0xFB => 5,
        _ => 1,
    }
}

/// The code at the start of the bytes, and its size in bytes. `None` without bytes, and if the code is truncated.
fn code_at(bytes: &[u8]) -> Option<(Arm64UnwindCode, usize)>
    ensures some { IfSome result (λ x. StartsWithArm64Code bytes.now x.0) }
    ensures len { IfSome result (λ x. x.1 ≡ length (encoding x.0)) }
    ensures fits { IfSome result (λ x. (0 < x.1) × (x.1 ≤ 5) × (x.1 ≤ length bytes.now)) }
    ensures none { IfNone result (StartsWithNoArm64Code bytes.now) }
{
    if bytes.is_empty() {
        return None;
    }
    let first = bytes[0];
    let second = if 1 < bytes.len() { bytes[1] } else { 0 };
    let len = code_len(first, second);
    if bytes.len() < len {
        return None;
    }
    let code = match len {
        1 => one_byte_code(first),
        2 => two_byte_code(first, second),
        3 => three_byte_code(first, second, bytes[2]),
        4 => four_byte_code(first, second, bytes[2], bytes[3]),
        _ => five_byte_code(second, bytes[2], bytes[3], bytes[4]),
    };
    Some((code, len))
}

impl Arm64UnwindCode {
    /// The code at the start of the bytes, and its size in bytes, from 1 to 5. `None` without bytes, and if the code
    /// is truncated.
    pub fn parse(bytes: &[u8]) -> Option<(Arm64UnwindCode, usize)>
        ensures some { IfSome result (λ x. StartsWithArm64Code bytes.now x.0) }
        ensures len { IfSome result (λ x. x.1 ≡ length (encoding x.0)) }
        ensures fits { IfSome result (λ x. (0 < x.1) × (x.1 ≤ 5) × (x.1 ≤ length bytes.now)) }
        ensures none { IfNone result (StartsWithNoArm64Code bytes.now) }
    {
        code_at(bytes)
    }
}

/// A code, and where it stands in its stream.
#[derive(Clone, Copy, Debug, PartialEq, Eq)]
pub struct Arm64UnwindCodeData {
    /// The offset of the code in bytes, from the start of the stream.
    pub offset: u32,
    /// What the instruction did.
    pub code: Arm64UnwindCode,
    /// The size of the code in bytes, from 1 to 5.
    pub len: u8,
}

/// The size of the longest stream in bytes: each offset in it fits 32 bits.
const LONGEST_STREAM: usize = 0xFFFF_FFFC;

/// The codes of a stream from an offset on, also those after an `End`. A truncated code is one item, `Arm64Cut`, and
/// then the iterator is over.
#[derive(Drop)]
pub struct Arm64UnwindCodeIterator<'a> {
    bytes: &'a [u8],
    offset: usize,
    ghost short: { length bytes.now < 2 ^ 32 },
}

impl<'a> Arm64UnwindCodeIterator<'a> {
    ghost use Rattle.pe_core.specs.Refusals.{ReturnsAs};
    ghost use Rattle.pe_unwind.specs.Arm64Tiling.{stream_offset, stream_at};

    /// The codes of these bytes from an offset on. Errors: `Arm64Stream` if the length of the bytes is not a multiple
    /// of 4, if the offset is past their end, or if there are more than 4,294,967,292 bytes.
    pub fn new(bytes: &'a [u8], start: usize) -> Result<Self>
        ensures { ReturnsAs stream_offset result (stream_at bytes.entry.now start) }
    {
        if bytes.len() % 4 != 0 || bytes.len() < start || LONGEST_STREAM < bytes.len() {
            return Err(Error::Malformed(Reason::Arm64Stream {
                length: bytes.len(),
                start,
            }));
        }
        Ok(Arm64UnwindCodeIterator {
            bytes,
            offset: start,
        })
    }
}

impl<'a> Iterator for Arm64UnwindCodeIterator<'a> {
    ghost use Rattle.pe_unwind.specs.Arm64Tiling.{stream_offset, left_at, ReturnsArm64Code};

    type Item = Result<Arm64UnwindCodeData>;

    ghost next_gives = { λ s r t. ReturnsArm64Code (stream_offset s) r (stream_offset t) };

    ghost remaining = { λ s. at_most (left_at (stream_offset s)) };

    /// At least one item for each five bytes that are left, at most one for each byte.
    fn size_hint(&self) -> (usize, Option<usize>)
        ensures lower { IsWithinCount result.0 (at_most (left_at (stream_offset self.now))) }
        ensures upper { IfSome result.1 (UpTo (at_most (left_at (stream_offset self.now)))) }
        ensures least { result.0 ≡ (left_at (stream_offset self.now) + 4) / 5 }
        ensures most { result.1 ≡ Some (left_at (stream_offset self.now)) }
    {
        let left = self.bytes.len().saturating_sub(self.offset);
        (left.div_ceil(5), Some(left))
    }

    fn next(&mut self) -> Option<Result<Arm64UnwindCodeData>> {
        let bytes = self.bytes;
        let offset = self.offset;
        if bytes.len() <= offset {
            return None;
        }
        match Arm64UnwindCode::parse(bytes.split_at(offset).1) {
            Some((code, len)) => {
                self.offset = offset + len;
                Some(Ok(Arm64UnwindCodeData {
                    offset: offset as u32,
                    code,
                    len: len as u8,
                }))
            }
            None => {
                self.offset = bytes.len();
                Some(Err(Error::Malformed(Reason::Arm64Cut(offset))))
            }
        }
    }
}
