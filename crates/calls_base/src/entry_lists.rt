//! The lists of lookup entries at many offsets of some bytes, whose ends are found together in a room of the caller. Records of a
//! hostile image may share one long list, or start inside of it: to look for the end of each by itself would take quadratic time.

ghost use Rattle.std.specs.Prelude.{◌≡◌, ◌<◌, ◌≤◌, All, IfSome, Some, length, take};
ghost use Rattle.pe_core.specs.Imports.{entry_size, lookups_at};
ghost use Rattle.pe_core.specs.ImportSteps.{IsList};
ghost use Rattle.pe_core.specs.Refusals.{ReturnsAs};
ghost use Rattle.calls_base.specs.TextRuns.{IsEntryRun};

use crate::text_runs::{NO_RUN, Run};
use pe_core::{Result, lookup_number, lookup_size, lookups_at, require_bytes};

/// The offset of the first zero entry from an offset on.
#[tactic(auto, using(pe_core::proofs::EntryLists::ends_found))]
fn zero_entry(bytes: &[u8], start: usize, is_64: bool) -> Option<usize>
    ensures { IfSome result
        (λ end. IsList (entry_size is_64) bytes.now (record { start = start; end = end })) }
{
    let size = lookup_size(is_64);
    let mut end = start;
    while require_bytes(bytes, end, size).is_ok() {
        if lookup_number(bytes, end, is_64) == 0 {
            return Some(end);
        }
        end += size;
    }
    None
}

/// The list that starts at an offset. None where no zero entry ends it.
fn list_from(bytes: &[u8], start: u64, is_64: bool) -> Option<Run>
    ensures { IfSome result (λ list. IsEntryRun (entry_size is_64) bytes.now list) }
{
    let end = zero_entry(bytes, start as usize, is_64)?;
    Some(Run {
        start,
        end: end as u64,
        text: 0,
    })
}

/// Whether a list has an entry at an offset.
fn has_entry(list: &Run, start: u64, size: u64) -> bool
    requires { 0 < size }
{
    list.start <= start && start <= list.end && start % size == list.start % size
}

/// Makes lists of the offsets that the room has as starts, which rise within each remainder by the size of an entry, and returns
/// how many there are: they are at the start of the room. Each of the offsets with a zero entry after it lies in one of them.
fn keep_lists(bytes: &[u8], room: &mut [Run], is_64: bool) -> usize
    ensures lists { All (IsEntryRun (entry_size is_64) bytes.now) (take result room.new) }
    ensures inside { result ≤ length room.new }
{
    let size = lookup_size(is_64) as u64;
    let mut count = 0;
    let mut list = NO_RUN;
    for i in 0..room.len() {
        let start = room[i].start;
        if !has_entry(&list, start, size) {
            // Nor do later entries of the same remainder have a zero one after them where this one has none.
            list = Run {
                start,
                end: u64::MAX,
                text: 0,
            };
            if let Some(found) = list_from(bytes, start, is_64) {
                list = found;
                room[count] = found;
                count += 1;
            }
        }
    }
    count
}

/// Bytes in which lists of lookup entries are looked up.
#[derive(Clone, Copy)]
pub struct EntryLists<'a> {
    bytes: &'a [u8],
    is_64: bool,
    /// Where they are sorted by the remainder of their start, then by start, one of these lists costs no more than an empty one.
    lists: &'a [Run],
    ghost are: { All (IsEntryRun (entry_size is_64) bytes.now) lists.now },
}

impl<'a> EntryLists<'a> {
    /// Lists that are read by themselves.
    pub fn alone(bytes: &'a [u8], is_64: bool) -> EntryLists<'a>
        ensures bytes { result.bytes.now ≡ bytes.entry.now }
        ensures width { result.is_64 ≡ is_64 }
    {
        EntryLists {
            bytes,
            is_64,
            lists: &[],
        }
    }

    /// Lists at the offsets that the room has as starts, and others. What is in the room after it is left open.
    pub fn together(bytes: &'a [u8], is_64: bool, room: &'a mut [Run]) -> EntryLists<'a>
        ensures bytes { result.bytes.now ≡ bytes.entry.now }
        ensures width { result.is_64 ≡ is_64 }
    {
        let size = lookup_size(is_64) as u64;
        room.sort_unstable_by_key(|list| (list.start % size, list.start));
        let count = keep_lists(bytes, room, is_64);
        EntryLists {
            bytes,
            is_64,
            lists: &room[..count],
        }
    }

    /// The lookup entries at an offset: by the list in which they lie, or by themselves if they lie in none. Error: `Short`
    /// if no zero entry ends them.
    pub fn at(&self, offset: usize) -> Result<&'a [u8]>
        ensures { ReturnsAs (λ s. s.now) result
            (lookups_at (entry_size self.now.is_64) self.now.bytes.now (Some offset)) }
    {
        let size = lookup_size(self.is_64) as u64;
        let key = (offset as u64 % size, offset as u64);
        let after = self
            .lists
            .partition_point(|list| (list.start % size, list.start) <= key);
        if 0 < after {
            let list = &self.lists[after - 1];
            let start = offset as u64;
            if list.start <= start && start <= list.end && (list.end - start) % size == 0 {
                return Ok(&self.bytes[offset..list.end as usize]);
            }
        }
        lookups_at(self.bytes, offset, self.is_64)
    }
}
