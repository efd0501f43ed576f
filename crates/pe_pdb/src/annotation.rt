//! Binary annotations ([`BinaryAnnotationOpcode`](https://github.com/microsoft/microsoft-pdb/blob/master/include/cvinfo.h)), by
//! which an inlined function says which code is of which line: operations and their operands, compressed numbers of one, two or
//! four bytes.

ghost use Rattle.std.specs.Prelude.{◌≡◌, ◌+◌, ◌<◌, ◌≤◌, ◌^◌, length, IfOk, IfSome, Ok};
ghost use Rattle.pe_core.specs.Bytes.{le};
ghost use Rattle.pe_pdb.specs.Annotations.{annotation_at, number_at, number_size, number_value};
ghost use Rattle.pe_pdb.specs.Refusals.{PdbReturns};

use crate::error::{PdbError, Result};
use pe_core::read_u8;

/// The greatest number of an operation.
const LAST_OPERATION: u32 = 13;

/// The operation that has two operands: `BA_OP_ChangeCodeLengthAndCodeOffset`.
const LENGTH_AND_OFFSET: u32 = 12;

/// An operation and its operands. Operation 0 ends the annotations.
#[derive(Clone, Copy)]
pub(crate) struct Annotation {
    pub(crate) operation: u32,
    pub(crate) first: u32,
    /// 0 but of operation 12.
    pub(crate) second: u32,
}

/// How many bytes a compressed number has, by the first of them. 0 where it starts none.
fn number_size(first: u8) -> usize
    ensures { result ≡ number_size first }
{
    match first {
        0..=0x7F => 1,
        0x80..=0xBF => 2,
        0xC0..=0xDF => 4,
        _ => 0,
    }
}

/// The value of a number whose bytes are known to be there.
fn number_value(bytes: &[u8], offset: usize) -> u32
    requires inside { offset + number_size (le bytes.now offset 1) ≤ length bytes.now }
    requires some { offset + 1 ≤ length bytes.now }
    requires known { 0 < number_size (le bytes.now offset 1) }
    ensures { result ≡ number_value bytes.now offset }
{
    let first = read_u8(bytes, offset);
    if first < 0x80 {
        return u32::from(first);
    }
    let second = u32::from(read_u8(bytes, offset + 1));
    if first < 0xC0 {
        return u32::from(first % 0x40) * 0x100 + second;
    }
    let third = u32::from(read_u8(bytes, offset + 2));
    let fourth = u32::from(read_u8(bytes, offset + 3));
    u32::from(first % 0x20) * 0x100_0000 + second * 0x1_0000 + third * 0x100 + fourth
}

/// The number at an offset, and where it ends.
#[tactic(auto, unfolding(crate::specs::Annotations::number_at))]
fn number_at(bytes: &[u8], offset: usize) -> Result<(u32, usize)>
    ensures value { PdbReturns (λ n. n) result (number_at bytes.now offset) }
    ensures inside { IfOk result (λ n. n.1 ≤ length bytes.now) }
    ensures after { IfOk result (λ n. offset < n.1) }
{
    if offset >= bytes.len() {
        return Err(PdbError::Annotation(offset));
    }
    let first = read_u8(bytes, offset);
    // Most numbers have one byte.
    if first < 0x80 {
        return Ok((u32::from(first), offset + 1));
    }
    let size = number_size(first);
    if size == 0 || bytes.len() - offset < size {
        return Err(PdbError::Annotation(offset));
    }
    Ok((number_value(bytes, offset), offset + size))
}

/// An annotation with one operand, where both numbers have one byte, as most have. `None` of others.
#[inline(always)]
#[tactic(auto, unfolding(crate::specs::Annotations::annotation_at, crate::specs::Annotations::number_at))]
fn short_at(bytes: &[u8], offset: usize) -> Option<Annotation>
    ensures value { IfSome result (λ a. annotation_at bytes.now offset ≡ Ok (a, offset + 2)) }
    ensures inside { IfSome result (λ a. offset + 2 ≤ length bytes.now) }
{
    if bytes.len() < 2 || offset > bytes.len() - 2 {
        return None;
    }
    let (operation, first) = (read_u8(bytes, offset), read_u8(bytes, offset + 1));
    if operation == 0 || operation >= LENGTH_AND_OFFSET as u8 || first >= 0x80 {
        return None;
    }
    Some(Annotation {
        operation: u32::from(operation),
        first: u32::from(first),
        second: 0,
    })
}

impl Annotation {
    /// The annotation at an offset, and where it ends: at the end of the bytes where it ends them. Error: `Annotation` if it is
    /// truncated, or of an operation that is not known.
    #[tactic(auto, unfolding(crate::specs::Annotations::annotation_at))]
    pub(crate) fn parse(bytes: &[u8], offset: usize) -> Result<(Annotation, usize)>
        ensures value { PdbReturns (λ a. a) result (annotation_at bytes.now offset) }
        ensures inside { IfOk result (λ a. a.1 ≤ length bytes.now) }
        ensures after { IfOk result (λ a. offset < a.1) }
    {
        if let Some(short) = short_at(bytes, offset) {
            return Ok((short, offset + 2));
        }
        let (operation, next) = number_at(bytes, offset)?;
        if operation == 0 {
            let end = Annotation {
                operation: 0,
                first: 0,
                second: 0,
            };
            return Ok((end, bytes.len()));
        }
        if operation > LAST_OPERATION {
            return Err(PdbError::Annotation(offset));
        }
        let (first, next) = number_at(bytes, next)?;
        let (second, next) = if operation == LENGTH_AND_OFFSET {
            number_at(bytes, next)?
        } else {
            (0, next)
        };
        Ok((
            Annotation {
                operation,
                first,
                second,
            },
            next,
        ))
    }
}
