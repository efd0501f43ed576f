//! Lists of functions of x64 images, and of the codes of unwind records. The range of what is listed is tested once a call, not
//! once an entry.

ghost use Rattle.std.specs.Prelude.{◌≡◌, ◌+◌, ◌%◌, ◌^◌, ◌<◌, ◌≤◌, List, ℕ, Ok, IfSome, length};
ghost use Rattle.pe_unwind.specs.ExceptionTable.{function_of};
ghost use Rattle.calls_unwind.specs.CodeBytes.{HasCodes, IsFrequent, PutsCodes, ReturnsAny, StepsBytes, stream_in};
ghost use Rattle.calls_base.specs.HandsOut.{result_number};
ghost use Rattle.calls_base.specs.Lists.{HandsOutList, Numbered, StepsByIndex, by_number, if_there};
ghost use Rattle.calls_base.specs.Ranges.{bytes_at};
ghost use Rattle.calls_unwind.specs.Unwinding.{HandsOutAll, StepsCodes, flat_answer, function_in};

use crate::unwinding::{Code, CodeWalk, flat, function_in, next_code, plain};
use calls_base::lists::{Steps, hand_out_list, if_there, next_index};
use calls_base::ranges::{Range, slice_of};
use calls_base::results::{DONE, ROOM, number_of};
use pe_core::read_u16;
use pe_unwind::{Register, RuntimeFunction, UnwindCode, UnwindCodeIterator};

/// The size of a slot of an unwind code in bytes.
const SIZE_OF_SLOT: usize = 2;

const UWOP_PUSH_NONVOL: u16 = 0;

const UWOP_ALLOC_LARGE: u8 = 1;

const UWOP_ALLOC_SMALL: u8 = 2;

/// Steps over the entries of a function table.
#[derive(Clone, Copy)]
pub struct Functions<'a> {
    pub bytes: &'a [u8],
    pub table: &'a Range,
}

impl<'a> Steps<u64, RuntimeFunction> for Functions<'a> {
    ghost steps = { λ s. Numbered result_number
        (StepsByIndex (λ i. if_there (function_in s.bytes.now s.table.now i))) };

    fn step(&self, index: &mut u64) -> Result<Option<RuntimeFunction>, u32> {
        next_index(if_there(function_in(self.bytes, self.table, *index)), index)
    }
}

/// Steps over the entries in these bytes.
#[derive(Clone, Copy)]
pub struct Entries<'a> {
    pub table: &'a [u8],
}

impl<'a> Steps<u64, RuntimeFunction> for Entries<'a> {
    ghost steps = { λ s. Numbered result_number
        (StepsByIndex (λ i. if_there (function_of s.table.now i))) };

    fn step(&self, index: &mut u64) -> Result<Option<RuntimeFunction>, u32> {
        next_index(
            if_there(RuntimeFunction::of_table(self.table, *index as usize)),
            index,
        )
    }
}

/// The result of a step as numbers.
#[inline(always)]
fn flat_answer(given: Option<pe_core::Result<UnwindCode>>) -> Result<Option<Code>, u32>
    ensures { result ≡ by_number result_number (flat_answer given) }
{
    match given {
        Some(Ok(code)) => Ok(Some(flat(code))),
        None => Ok(None),
        Some(Err(error)) => Err(number_of(&error)),
    }
}

/// Steps over the codes of an unwind record.
#[derive(Clone, Copy)]
pub struct Codes<'a> {
    bytes: &'a [u8],
}

impl<'a> Steps<CodeWalk, Code> for Codes<'a> {
    ghost steps = { λ s. Numbered result_number (StepsCodes s.bytes.now) };

    fn step(&self, walk: &mut CodeWalk) -> Result<Option<Code>, u32> {
        flat_answer(next_code(self.bytes, walk))
    }
}

/// The bytes of codes that are left, and how they are read.
#[derive(Clone, Copy)]
pub struct CodeBytes<'a> {
    pub left: &'a [u8],
    pub version: u8,
    pub frame_register: u8,
}

/// The code at the start of the bytes, and its size, where it pushed a register or allocated less than 512 KiB: nearly all codes did,
/// and these are read without what others take.
#[inline(always)]
fn frequent_code(bytes: &[u8]) -> Option<(Code, usize)>
    ensures { IfSome result (λ found. IsFrequent bytes.now found.0 found.1) }
{
    if bytes.len() < SIZE_OF_SLOT {
        return None;
    }
    // Most codes push, and of these the slot is read as one number.
    let slot = read_u16(bytes, 0);
    if slot / 256 % 16 == UWOP_PUSH_NONVOL {
        let (code_offset, register) = ((slot % 256) as u8, (slot / 4096) as u8);
        return Some((plain(code_offset, 0, register, 0), SIZE_OF_SLOT));
    }
    let info = bytes[1] / 16;
    if bytes[1] % 16 == UWOP_ALLOC_SMALL {
        return Some((plain(bytes[0], 1, 0, u32::from(info) * 8 + 8), SIZE_OF_SLOT));
    }
    // Its info is 0 where one more slot has the size.
    if bytes.len() >= 2 * SIZE_OF_SLOT && bytes[1] == UWOP_ALLOC_LARGE {
        let size = u32::from(read_u16(bytes, SIZE_OF_SLOT)) * 8;
        return Some((plain(bytes[0], 1, 0, size), 2 * SIZE_OF_SLOT));
    }
    None
}

/// What a step over any bytes returns, and how many bytes it leaves. Out of line, since few codes are read by it.
#[inline(never)]
#[tactic(auto, using(crate::proofs::CodeBytes::any_returns))]
fn any_code(codes: CodeBytes<'_>) -> (Result<Option<Code>, u32>, usize)
    ensures code { ReturnsAny codes.entry result.0 result.1 }
    ensures left { result.1 ≤ length codes.entry.left.now }
{
    let register = Register(codes.frame_register);
    let mut codes = UnwindCodeIterator::new(codes.left, codes.version, register);
    let given = codes.next();
    (flat_answer(given), codes.bytes_left())
}

/// What was written of some codes to the start of an array.
#[derive(Clone, Copy)]
pub struct PutCodes<'a> {
    /// How many codes.
    count: usize,
    /// Those after them.
    left: CodeBytes<'a>,
    /// The number of the error, where no code starts what is left. None where nothing is, and where the array is full.
    refused: Option<u32>,
}

#[inline(always)]
fn put_of(count: usize, left: CodeBytes<'_>, refused: Option<u32>) -> PutCodes<'_>
    ensures { result ≡ record { count = count; left = left.entry; refused = refused } }
{
    PutCodes {
        count,
        left,
        refused,
    }
}

/// Writes frequent codes to the start of an array, and returns how many they are. It calls nothing, and so takes no registers of the
/// caller.
#[inline(always)]
pub fn put_frequent(codes: &mut CodeBytes<'_>, entries: &mut [Code]) -> usize
    ensures { HasCodes codes.old codes.new entries.old entries.new result }
{
    let mut count = 0;
    while count < entries.len() {
        let bytes = codes.left;
        match frequent_code(bytes) {
            Some((code, size)) => {
                codes.left = bytes.split_at(size).1;
                entries[count] = code;
                count += 1;
            }
            None => return count,
        }
    }
    count
}

/// Writes codes of any kind to an array, from an entry on, before which others stand.
#[inline(never)]
fn put_any<'a>(first: CodeBytes<'a>, entries: &mut [Code], from: usize) -> PutCodes<'a>
    requires { from ≤ length entries.old }
    ensures { (s : CodeBytes) (before : List Code) → HasCodes s first.entry before entries.old from →
        PutsCodes s before entries.new result }
{
    let mut codes = first;
    let mut count = from;
    while count < entries.len() {
        let bytes = codes.left;
        if let Some((code, size)) = frequent_code(bytes) {
            codes.left = bytes.split_at(size).1;
            entries[count] = code;
            count += 1;
        } else if bytes.is_empty() {
            return put_of(count, codes, None);
        } else {
            let (given, left) = any_code(codes);
            let rest = bytes.split_at(bytes.len() - left).1;
            match given {
                Ok(answer) => match answer {
                    Some(code) => {
                        codes.left = rest;
                        entries[count] = code;
                        count += 1;
                    }
                    None => return put_of(count, codes, None),
                },
                Err(error) => return put_of(count, codes, Some(error)),
            }
        }
    }
    put_of(count, codes, None)
}

/// Writes codes to the start of an array, as far as there are any, and room.
#[inline(always)]
#[tactic(auto, using(crate::proofs::PutCodes::none_yet))]
fn put_codes<'a>(codes: CodeBytes<'a>, entries: &mut [Code]) -> PutCodes<'a>
    ensures { PutsCodes codes.entry entries.old entries.new result }
{
    let mut left = codes;
    let count = put_frequent(&mut left, entries);
    if left.left.is_empty() {
        put_of(count, left, None)
    } else {
        put_any(left, entries, count)
    }
}

/// Lists codes in bytes, as `hand_out_list` does.
#[inline(always)]
#[tactic(auto, using(calls_base::proofs::FilledLists::refused_if, crate::proofs::CodeBytes::same_stream, crate::proofs::PutCodes::lists_put))]
fn list_in_bytes(codes: &mut CodeBytes<'_>, entries: &mut [Code], written: &mut u64) -> u32
    ensures { HandsOutList (Numbered result_number StepsBytes) result
        codes.old codes.new entries.old entries.new written.old written.new }
{
    if entries.is_empty() {
        return ROOM;
    }
    let put = put_codes(*codes, entries);
    *codes = put.left;
    if put.count == 0 {
        if let Some(error) = put.refused {
            // After an error the walk is over.
            codes.left = &[];
            return error;
        }
    }
    // The next call returns an error that comes after a code.
    *written = put.count as u64;
    DONE
}

/// Lists the codes of a walk whose range is these bytes.
#[inline(always)]
#[tactic(auto, using(crate::proofs::CodeBytes::list_shortens, crate::proofs::CodeBytes::lists_codes))]
fn list_bytes(left: &[u8], walk: &mut CodeWalk, entries: &mut [Code], written: &mut u64) -> u32
    requires length { length left.now ≡ walk.old.left.length }
    requires end { walk.old.left.offset + walk.old.left.length ≤ 2 ^ 63 }
    ensures { (b : List ℕ) → bytes_at b walk.old.left ≡ Ok left.now →
        HandsOutList (Numbered result_number (StepsCodes b))
        result walk.old walk.new entries.old entries.new written.old written.new }
{
    let mut codes = CodeBytes {
        left,
        version: walk.version,
        frame_register: walk.frame_register,
    };
    let number = list_in_bytes(&mut codes, entries, written);
    let after = codes.left.len() as u64;
    walk.left = Range {
        offset: walk.left.offset + (walk.left.length - after),
        length: after,
    };
    number
}

/// Lists the codes of a walk step by step. Out of line: it is for a walk whose range is not inside the bytes, whose first step is
/// refused.
#[cold]
#[inline(never)]
fn list_outside(bytes: &[u8], walk: &mut CodeWalk, entries: &mut [Code], written: &mut u64) -> u32
    ensures { HandsOutList (Numbered result_number (StepsCodes bytes.now))
        result walk.old walk.new entries.old entries.new written.old written.new }
{
    hand_out_list(&Codes { bytes }, walk, entries, written)
}

/// Lists the codes of a walk.
#[inline(always)]
pub fn list_codes(bytes: &[u8], walk: &mut CodeWalk, entries: &mut [Code], written: &mut u64) -> u32
    ensures { HandsOutList (Numbered result_number (StepsCodes bytes.now))
        result walk.old walk.new entries.old entries.new written.old written.new }
{
    match slice_of(bytes, &walk.left) {
        Ok(left) => list_bytes(left, walk, entries, written),
        Err(_) => list_outside(bytes, walk, entries, written),
    }
}

/// Lists the codes that are left of a record, after so many, and returns what `pe_c_all_codes` does. Out of line, since few records
/// have a code that is not frequent; its arguments are as many as those of that call, which ends with it.
#[cold]
#[inline(never)]
pub fn finish_codes(
    left: &[u8],
    version: u8,
    frame_register: u8,
    entries: &mut [Code],
    written: &mut u64,
) -> u32
    requires { written.old ≤ length entries.old }
    ensures { (s : CodeBytes) (before : List Code) →
        HasCodes s (record { left = left.entry; version = version; frame_register = frame_register })
        before entries.old written.old →
        HandsOutAll (stream_in s) result before entries.new written.new }
{
    let codes = CodeBytes {
        left,
        version,
        frame_register,
    };
    let put = put_any(codes, entries, *written as usize);
    *written = put.count as u64;
    match put.refused {
        Some(error) => error,
        None if put.left.left.is_empty() => DONE,
        None => ROOM,
    }
}

/// How codes are read: two fields of their unwind record.
#[repr(C)]
#[derive(Clone, Copy)]
pub struct CodeForm {
    /// The version of the record, 1 or 2.
    pub version: u8,
    /// The number of the frame register; 0 without one.
    pub frame_register: u8,
}
