//! Lists in one call. A call fills the caller's array with what the steps of a walk return one after the other, and leaves the
//! walk after them, so that the next call goes on there. At the end of the walk a call writes no entry. An error is returned by
//! a call of its own: where entries come before it, a call returns these, and leaves the walk before the error.
//!
//! The list is that of the steps, whatever they walk over: one loop makes all of these calls.

ghost use Rattle.std.specs.Prelude.{◌≡◌, ◌<◌, ℕ, Option, Result, length};
ghost use Rattle.pe_core.specs.Refusals.{answer_of};
ghost use Rattle.calls_base.specs.HandsOut.{result_number};
ghost use Rattle.calls_base.specs.Lists.{HandsOutList, PutsList, by_number, if_there, index_after};

use crate::results::{DONE, ROOM, number_of};
use pe_core::{Error, Reason};

/// The steps of a walk, and what they read. A walk `W` is what callers hold, a value `T` what they get.
pub trait Steps<W, T> {
    // A walk, what a step returns, and the walk after it.
    ghost steps: { Self → W → Result (Option T) ℕ → W → Type 0 };

    /// One step: a value, none at the end of the walk, or the number of an error.
    fn step(&self, walk: &mut W) -> Result<Option<T>, u32>
        ensures { steps self.now walk.old result walk.new };
}

/// Writes to the start of an array what steps return, and returns how many entries that are.
#[inline(always)]
fn fill<W: Copy, T: Copy, S: Steps<W, T>>(
    steps: &S,
    walk: &mut W,
    entries: &mut [T],
) -> Result<usize, u32>
    requires { 0 < length entries.old }
    ensures { PutsList (S.steps steps.now) walk.old walk.new entries.old entries.new result }
{
    let mut count = 0;
    while count < entries.len() {
        let before = *walk;
        match steps.step(walk) {
            Ok(Some(value)) => {
                entries[count] = value;
                count += 1;
            }
            Ok(None) => return Ok(count),
            Err(error) => {
                if count == 0 {
                    return Err(error);
                }
                // The next call returns the error.
                *walk = before;
                return Ok(count);
            }
        }
    }
    Ok(count)
}

/// Writes what steps return to the start of an array, and how many entries that are to `written`. The rest of the array is
/// unchanged, and after an error all of it and `written`. `ROOM` where the array has no entries.
#[inline(always)]
pub fn hand_out_list<W: Copy, T: Copy, S: Steps<W, T>>(
    steps: &S,
    walk: &mut W,
    entries: &mut [T],
    written: &mut u64,
) -> u32
    ensures { HandsOutList (S.steps steps.now) result
        walk.old walk.new entries.old entries.new written.old written.new }
{
    if entries.is_empty() {
        return ROOM;
    }
    match fill(steps, walk, entries) {
        Ok(count) => {
            *written = count as u64;
            DONE
        }
        Err(error) => error,
    }
}

/// A step's error as its number.
#[inline(always)]
pub fn numbered<T>(given: pe_core::Result<Option<T>>) -> Result<Option<T>, u32>
    ensures { result ≡ by_number result_number (answer_of given) }
{
    match given {
        Ok(value) => Ok(value),
        Err(error) => Err(number_of(&error)),
    }
}

/// The same of a table that is read by index, which moves past an entry.
#[inline(always)]
pub fn next_index<T>(given: pe_core::Result<Option<T>>, index: &mut u64) -> Result<Option<T>, u32>
    ensures value { result ≡ by_number result_number (answer_of given) }
    ensures index { index.new ≡ index_after index.old (answer_of given) }
{
    if let Ok(Some(_)) = given {
        *index = index.saturating_add(1);
    }
    numbered(given)
}

/// An entry of a table, none where the table has no entry with its index.
#[inline(always)]
pub fn if_there<T>(given: pe_core::Result<T>) -> pe_core::Result<Option<T>>
    ensures { answer_of result ≡ if_there (answer_of given) }
{
    match given {
        Ok(entry) => Ok(Some(entry)),
        Err(Error::Malformed(Reason::FunctionIndex(_))) => Ok(None),
        Err(error) => Err(error),
    }
}
