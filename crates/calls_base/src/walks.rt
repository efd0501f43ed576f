//! Walks over entries of one width. A walk is the range of the entries that are left; each step makes it shorter.

ghost use Rattle.std.specs.Prelude.{◌≡◌, ◌+◌, ◌-◌, ◌≤◌, ◌<◌, length, IfOk, IfSome};
ghost use Rattle.std.specs.Option.{option_map};
ghost use Rattle.pe_core.specs.Refusals.{answer_by};
ghost use Rattle.calls_base.specs.Walks.{left_entry, walk_of};

use crate::ranges::{NO_BYTES, Range, slice_of};
use pe_core::{Error, Result};

/// The bytes from the next entry of a walk on, if there is one; the walk moves past the entry. `Short` where the walk
/// is not inside the bytes, or its entry is truncated: then it is over.
pub fn next_entry<'a>(bytes: &'a [u8], walk: &mut Range, width: usize) -> Result<Option<&'a [u8]>>
    ensures entry { answer_by
        (option_map (λ s. s.now)) result ≡ left_entry width bytes.entry.now walk.old }
    ensures walk { walk.new ≡ walk_of width bytes.entry.now walk.old }
    ensures whole { IfOk result (λ e. IfSome e (λ s. width ≤ length s.now)) }
{
    let range = *walk;
    // The walk is over, unless a step below succeeds.
    *walk = NO_BYTES;
    let left = slice_of(bytes, &range)?;
    if left.is_empty() {
        *walk = range;
        return Ok(None);
    }
    if left.len() < width {
        return Err(Error::Short {
            at: range.offset as usize,
            needed: width,
        });
    }
    *walk = Range {
        offset: range.offset + width as u64,
        length: range.length - width as u64,
    };
    Ok(Some(left))
}
