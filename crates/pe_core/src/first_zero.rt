//! The first zero of a byte slice, 16 bytes at a time: the names in an image are NUL-terminated. Most of them are ASCII,
//! which the same loads test.

ghost use Rattle.std.specs.Prelude.{◌≡◌, ◌+◌, ◌≤◌, ◌==◌, IfSome, length, position};
ghost use Rattle.pe_core.specs.ZeroRuns.{IsAsciiRun, IsAsciiText, IsZeroRun, lowest_bit};

use std::simd::prelude::*;

/// The number of bytes of one vector load.
const LANES: usize = 16;

/// The index of the lowest bit that is set, or 16 if none is.
#[inline(always)]
fn lowest_bit(mask: u64) -> usize
    ensures { result ≡ lowest_bit mask }
{
    if mask == 0 {
        LANES
    } else {
        mask.trailing_zeros() as usize
    }
}

/// The number of bytes before the first zero among the 16 bytes from `at` on: 16 if none is zero.
#[inline(always)]
fn zero_run(bytes: &[u8], at: usize) -> usize
    requires { at + 16 ≤ length bytes.now }
    ensures { IsZeroRun bytes.now at result }
{
    let zeros = u8x16::from_slice(&bytes[at..]).simd_eq(u8x16::splat(0));
    lowest_bit(zeros.to_bitmask())
}

/// The number of ASCII bytes before the first other one among the 16 bytes from `at` on: 16 if all are ASCII.
#[inline(always)]
fn ascii_run(bytes: &[u8], at: usize) -> usize
    requires { at + 16 ≤ length bytes.now }
    ensures { IsAsciiRun bytes.now at result }
{
    let others = u8x16::from_slice(&bytes[at..]).simd_ge(u8x16::splat(0x80));
    lowest_bit(others.to_bitmask())
}

/// The index of the first zero at or after `start`, if the bytes before it are ASCII. It looks at `most` bytes, in loads of
/// 16. `None` also if the zero is one of the last bytes of all, which no such load reaches.
#[inline(always)]
#[tactic(auto, using(crate::proofs::AsciiTexts::ascii_texts))]
pub(crate) fn ascii_text_end(bytes: &[u8], start: usize, most: usize) -> Option<usize>
    ensures { IfSome result (IsAsciiText bytes.now start) }
{
    if bytes.len() < start {
        return None;
    }
    let mut end = start;
    while LANES <= bytes.len() - end && end - start < most {
        let run = zero_run(bytes, end);
        if ascii_run(bytes, end) < run {
            return None;
        }
        if run < LANES {
            return Some(end + run);
        }
        end += LANES;
    }
    None
}

/// The index of the first zero, byte by byte, for the last few bytes.
fn first_zero_of_few(bytes: &[u8]) -> Option<usize>
    ensures { result ≡ position (λ c. c == 0) bytes.now }
{
    bytes.iter().position(|byte| *byte == 0)
}

/// The index of the first zero.
#[tactic(auto, using(crate::proofs::FirstZero::zeros))]
pub(crate) fn first_zero(bytes: &[u8]) -> Option<usize>
    ensures { result ≡ position (λ c. c == 0) bytes.now }
{
    let mut at = 0;
    while LANES <= bytes.len() - at {
        let run = zero_run(bytes, at);
        if run < LANES {
            return Some(at + run);
        }
        at += LANES;
    }
    let rest = first_zero_of_few(&bytes[at..])?;
    Some(at + rest)
}
