//! ARM64 unwind codes, of one to five bytes each, one at a time from a stream.
//! https://learn.microsoft.com/cpp/build/arm64-exception-handling#unwind-codes

ghost use Rattle.std.specs.Prelude.{◌≡◌, ◌+◌, ◌*◌, ◌≤◌, ◌^◌, length};
ghost use Rattle.pe_core.specs.Refusals.{answer_of, answer_by};
ghost use Rattle.pe_unwind.specs.Arm64Encoding.{bit};
ghost use Rattle.calls_unwind.specs.Arm64.{case_number, numbers_of, arm64_walk_at, left_of_stream, StepsOverArm64, WalksInArm64, StepsArm64Codes, arm64_function_in};
ghost use Rattle.calls_base.specs.HandsOut.{result_number};
ghost use Rattle.calls_base.specs.Lists.{Numbered, StepsByIndex, if_there};

use crate::arm64::functions::function_in;
use calls_base::lists::{Steps, if_there, next_index, numbered};
use calls_base::ranges::{NO_BYTES, Range, slice_of};
use pe_core::{Error, Reason, Result};
use pe_unwind::{
    Arm64CustomStackCase, Arm64RuntimeFunction, Arm64UnwindCode, Arm64UnwindCodeIterator,
};

/// The most bytes that a stream of codes can have: the largest multiple of 4 that fits 32 bits.
const LONGEST_STREAM: u64 = 4_294_967_292;

/// A walk over ARM64 unwind codes.
#[repr(C)]
#[derive(Clone, Copy)]
pub struct Arm64CodeWalk {
    /// The code bytes that are left.
    pub left: Range,
    /// Bytes, from the start of the stream to those that are left.
    pub offset: u64,
}

/// An ARM64 unwind code.
#[repr(C)]
#[derive(Clone, Copy)]
pub struct Arm64Code {
    /// Bytes, from the start of the stream to this code.
    pub offset: u32,
    /// Bytes of the code, 1 to 5.
    pub length: u32,
    /// The index of its variant of `Arm64UnwindCode`, from 0.
    pub kind: u32,
    /// The register, the first of two registers, a count of vectors, the byte of an `AddFp`, the case of a custom stack
    /// as the index of its variant of `Arm64CustomStackCase`, or the first byte of a reserved code; else 0.
    pub operand: u32,
    /// Bytes that are allocated, or the offset of what is saved or of an `AddFp` in bytes. For a scalable register the
    /// number in the code, for a reserved code the number in the bytes after its first. Else 0.
    pub value: u32,
    /// For a save of any register: bit 0 for a pair, bit 1 for a preindexed store, and from bit 2 on the kind of
    /// register. Else 0.
    pub flags: u32,
}

/// A walk that is over.
const OVER: Arm64CodeWalk = Arm64CodeWalk {
    left: NO_BYTES,
    offset: 0,
};

pub fn codes_at(bytes: &[u8], codes: &Range, start: u64) -> Result<Arm64CodeWalk>
    ensures { answer_of result ≡ arm64_walk_at bytes.now codes.now start }
{
    let stream = slice_of(bytes, codes)?;
    Arm64UnwindCodeIterator::new(stream, start as usize)?;
    Ok(Arm64CodeWalk {
        left: Range {
            offset: codes.offset + start,
            length: codes.length - start,
        },
        offset: start,
    })
}

fn case_number(what: Arm64CustomStackCase) -> u32
    ensures { result ≡ case_number what }
{
    match what {
        Arm64CustomStackCase::TrapFrame => 0,
        Arm64CustomStackCase::MachineFrame => 1,
        Arm64CustomStackCase::Context => 2,
        Arm64CustomStackCase::EcContext => 3,
        Arm64CustomStackCase::ClearUnwoundToCall => 4,
    }
}

/// The numbers of a save of any register.
fn any_register(
    kind: u8,
    pair: bool,
    preindexed: bool,
    register: u8,
    offset: u32,
) -> (u32, u32, u32, u32)
    ensures { result ≡ (22, register, offset, bit pair + 2 * bit preindexed + 4 * kind) }
{
    let flags = u32::from(pair) + 2 * u32::from(preindexed) + 4 * u32::from(kind);
    (22, u32::from(register), offset, flags)
}

/// The kind, operand, value and flags of a code.
fn numbers_of(code: Arm64UnwindCode) -> (u32, u32, u32, u32)
    ensures { result ≡ numbers_of code }
{
    match code {
        Arm64UnwindCode::AllocSmall { size_bytes } => (0, 0, size_bytes, 0),
        Arm64UnwindCode::SaveR19R20Preindexed { offset_bytes } => (1, 0, offset_bytes, 0),
        Arm64UnwindCode::SaveFpLr { offset_bytes } => (2, 0, offset_bytes, 0),
        Arm64UnwindCode::SaveFpLrPreindexed { offset_bytes } => (3, 0, offset_bytes, 0),
        Arm64UnwindCode::AllocMedium { size_bytes } => (4, 0, size_bytes, 0),
        Arm64UnwindCode::SaveRegPair {
            first_reg,
            offset_bytes,
        } => (5, u32::from(first_reg), offset_bytes, 0),
        Arm64UnwindCode::SaveRegPairPreindexed {
            first_reg,
            offset_bytes,
        } => (6, u32::from(first_reg), offset_bytes, 0),
        Arm64UnwindCode::SaveReg { reg, offset_bytes } => (7, u32::from(reg), offset_bytes, 0),
        Arm64UnwindCode::SaveRegPreindexed { reg, offset_bytes } => (
            8,
            u32::from(reg),
            offset_bytes,
            0,
        ),
        Arm64UnwindCode::SaveLrPair {
            first_reg,
            offset_bytes,
        } => (9, u32::from(first_reg), offset_bytes, 0),
        Arm64UnwindCode::SaveFRegPair {
            first_reg,
            offset_bytes,
        } => (10, u32::from(first_reg), offset_bytes, 0),
        Arm64UnwindCode::SaveFRegPairPreindexed {
            first_reg,
            offset_bytes,
        } => (11, u32::from(first_reg), offset_bytes, 0),
        Arm64UnwindCode::SaveFReg { reg, offset_bytes } => (12, u32::from(reg), offset_bytes, 0),
        Arm64UnwindCode::SaveFRegPreindexed { reg, offset_bytes } => (
            13,
            u32::from(reg),
            offset_bytes,
            0,
        ),
        Arm64UnwindCode::AllocZ { count } => (14, u32::from(count), 0, 0),
        Arm64UnwindCode::AllocLarge { size_bytes } => (15, 0, size_bytes, 0),
        Arm64UnwindCode::SetFp => (16, 0, 0, 0),
        Arm64UnwindCode::AddFp { imm8, offset_bytes } => (17, u32::from(imm8), offset_bytes, 0),
        Arm64UnwindCode::Nop => (18, 0, 0, 0),
        Arm64UnwindCode::End => (19, 0, 0, 0),
        Arm64UnwindCode::EndC => (20, 0, 0, 0),
        Arm64UnwindCode::SaveNext => (21, 0, 0, 0),
        Arm64UnwindCode::SaveAnyReg {
            kind,
            pair,
            preindexed,
            reg,
            offset_bytes,
        } => any_register(kind, pair, preindexed, reg, offset_bytes),
        Arm64UnwindCode::SaveZReg { r, o } => (23, u32::from(r), u32::from(o), 0),
        Arm64UnwindCode::SavePReg { r, o } => (24, u32::from(r), u32::from(o), 0),
        Arm64UnwindCode::CustomStack(what) => (25, case_number(what), 0, 0),
        Arm64UnwindCode::PacSignLr => (26, 0, 0, 0),
        Arm64UnwindCode::Reserved { opcode, value, .. } => (27, u32::from(opcode), value, 0),
    }
}

/// The bytes that a walk has left, if together with those before them they can be a stream. A caller may make any walk.
fn left_of_stream<'a>(bytes: &'a [u8], walk: &Arm64CodeWalk) -> Result<&'a [u8]>
    ensures { answer_by (λ s. s.now) result ≡ left_of_stream bytes.entry.now walk.now }
{
    let left = slice_of(bytes, &walk.left)?;
    let end = walk.offset.saturating_add(walk.left.length);
    if LONGEST_STREAM < end || end % 4 != 0 {
        return Err(Error::Malformed(Reason::Arm64Stream {
            length: left.len(),
            start: 0,
        }));
    }
    Ok(left)
}

/// One step over the bytes that a walk has left.
fn step(left: &[u8], walk: &mut Arm64CodeWalk) -> Result<Option<Arm64Code>>
    requires length { length left.now ≡ walk.old.left.length }
    requires end { walk.old.left.offset + walk.old.left.length ≤ 2 ^ 63 }
    requires stream { walk.old.offset + walk.old.left.length ≤ 4294967292 }
    ensures { StepsOverArm64 left.now walk.old (answer_of result) walk.new }
{
    if left.is_empty() {
        return Ok(None);
    }
    let offset = walk.offset;
    let range = walk.left;
    match Arm64UnwindCode::parse(left) {
        Some((code, length)) => {
            let count = length as u64;
            *walk = Arm64CodeWalk {
                left: Range {
                    offset: range.offset + count,
                    length: range.length - count,
                },
                offset: offset + count,
            };
            let (kind, operand, value, flags) = numbers_of(code);
            Ok(Some(Arm64Code {
                // A stream has fewer than 2^32 bytes.
                offset: offset as u32,
                length: length as u32,
                kind,
                operand,
                value,
                flags,
            }))
        }
        None => {
            *walk = OVER;
            Err(Error::Malformed(Reason::Arm64Cut(offset as usize)))
        }
    }
}

/// The next code of a walk. After an error the walk is over.
pub fn next_code(bytes: &[u8], walk: &mut Arm64CodeWalk) -> Result<Option<Arm64Code>>
    ensures { WalksInArm64
        (left_of_stream bytes.now walk.old) walk.old (answer_of result) walk.new }
{
    match left_of_stream(bytes, walk) {
        Ok(left) => step(left, walk),
        Err(error) => {
            *walk = OVER;
            Err(error)
        }
    }
}

/// Steps over the entries of a function table.
#[derive(Clone, Copy)]
pub struct Functions<'a> {
    pub bytes: &'a [u8],
    pub table: &'a Range,
}

impl<'a> Steps<u64, Arm64RuntimeFunction> for Functions<'a> {
    ghost steps = { λ s. Numbered result_number
        (StepsByIndex (λ i. if_there (arm64_function_in s.bytes.now s.table.now i))) };

    fn step(&self, index: &mut u64) -> std::result::Result<Option<Arm64RuntimeFunction>, u32> {
        next_index(if_there(function_in(self.bytes, self.table, *index)), index)
    }
}

/// Steps over a stream of codes.
#[derive(Clone, Copy)]
pub struct Codes<'a> {
    pub bytes: &'a [u8],
}

impl<'a> Steps<Arm64CodeWalk, Arm64Code> for Codes<'a> {
    ghost steps = { λ s. Numbered result_number (StepsArm64Codes s.bytes.now) };

    fn step(&self, walk: &mut Arm64CodeWalk) -> std::result::Result<Option<Arm64Code>, u32> {
        numbered(next_code(self.bytes, walk))
    }
}
