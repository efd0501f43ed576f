//! The lookup entries at many offsets of a byte slice, each byte read a few times. Records of a hostile image may share one
//! long list of entries, or start inside of it: to look for the end of each by itself would take quadratic time.

ghost use Rattle.std.specs.Prelude.{◌≡◌, ◌≤◌, IfOk, IfSome, All, Some};
ghost use Rattle.pe_core.specs.Imports.{entry_size, lookups_at};
ghost use Rattle.pe_core.specs.ImportSteps.{IsList};
ghost use Rattle.pe_core.specs.Refusals.{ReturnsAs};

use crate::bytes::require_bytes;
use crate::error::Result;
use crate::import::{lookup_number, lookup_size, lookups_at};
use std::alloc::{AllocError, Allocator};

/// The lookup entries from `start` to the zero entry at `end`.
#[derive(Clone, Copy)]
pub(crate) struct Entries {
    start: usize,
    end: usize,
}

/// The offset of the first zero entry from `start` on. `None` if there is none.
#[tactic(auto, using(crate::proofs::EntryLists::ends_found))]
fn zero_entry(bytes: &[u8], start: usize, is_64: bool) -> Option<usize>
    ensures list { IfSome result
        (λ end. IsList (entry_size is_64) bytes.now (record { start = start; end = end })) }
    ensures rises { IfSome result (λ end. start ≤ end) }
{
    let size = lookup_size(is_64);
    let mut end = start;
    while require_bytes(bytes, end, size).is_ok() {
        if lookup_number(bytes, end, is_64) == 0 {
            return Some(end);
        }
        end += size;
    }
    None
}

/// Lists of which each offset with a zero entry after it is in one, sorted by the remainder of their start by the size of
/// an entry, then by their start.
pub(crate) fn lists_at<A: Allocator + Copy + Drop>(
    alloc: A,
    bytes: &[u8],
    offsets: &[usize],
    is_64: bool,
) -> std::result::Result<Vec<Entries, A>, AllocError>
    ensures { IfOk result (λ lists. All (IsList (entry_size is_64) bytes.now) lists.items) }
{
    let size = lookup_size(is_64);
    let mut rising = Vec::new(alloc);
    rising.extend_from_slice(offsets)?;
    rising.sort_unstable_by_key(|offset| (*offset % size, *offset));
    let mut lists = Vec::new(alloc);
    // No offset is in it.
    let mut list = Entries { start: 1, end: 0 };
    for offset in &rising {
        let start = *offset;
        let is_covered = list.start <= start
            && start <= list.end
            && start % size == list.start % size;
        if !is_covered {
            match zero_entry(bytes, start, is_64) {
                Some(end) => {
                    list = Entries { start, end };
                    lists.push(list)?;
                }
                // Nor do later entries of the same remainder have a zero one after them.
                None => {
                    list = Entries {
                        start,
                        end: usize::MAX,
                    };
                }
            }
        }
    }
    Ok(lists)
}

/// The lookup entries from `offset` on, by the list in which they lie, or by themselves if they lie in none. Error: `Short`
/// if no zero entry ends them.
pub(crate) fn lookups_among<'a>(
    bytes: &'a [u8],
    lists: &[Entries],
    offset: usize,
    is_64: bool,
) -> Result<&'a [u8]>
    requires { All (IsList (entry_size is_64) bytes.now) lists.now }
    ensures { ReturnsAs
        (λ s. s.now) result (lookups_at (entry_size is_64) bytes.entry.now (Some offset)) }
{
    let size = lookup_size(is_64);
    let key = (offset % size, offset);
    let after = lists.partition_point(|list| (list.start % size, list.start) <= key);
    if 0 < after {
        let list = lists[after - 1];
        if list.start <= offset && offset <= list.end && (list.end - offset) % size == 0 {
            return Ok(&bytes[offset..list.end]);
        }
    }
    lookups_at(bytes, offset, is_64)
}
