//! The two forms of lists that streams of a minidump have. In one the number of entries comes first, and the entries follow
//! it; some writers put 4 bytes between, so that the entries stand at a multiple of 8. In the other a header says how many
//! bytes it has itself, how many each entry has, and how many entries there are.

ghost use Rattle.std.specs.Prelude.{◌≡◌, ◌≤◌, length};
ghost use Rattle.pe_minidump.specs.Lists.{counted_list, headed_list, list_with};
ghost use Rattle.pe_minidump.specs.Refusals.{DumpReturns};
ghost use Rattle.pe_minidump.specs.Tables.{records};

use crate::error::{DumpError, Result};
use crate::location::require_fields;
use crate::table::{DumpRecord, Table};
use pe_core::{read_u32, read_u64};

/// A list whose number of entries comes first. Errors, in order: `Short` if it is truncated; `ListSize` if the stream has another
/// size than the entries, with 4 bytes before them for their number, or 8.
#[tactic(auto, unfolding(crate::specs::Lists::counted_list))]
pub fn counted_list<E: DumpRecord>(stream: &[u8]) -> Result<Table<'_, E>>
    ensures { DumpReturns (λ t. records E.record_at t.bytes.now t.stride t.count) result
        (counted_list E.record_at E.SIZE stream.entry.now) }
{
    require_fields(stream, 4)?;
    let count = read_u32(stream, 0) as usize;
    let size = E::SIZE * count;
    if stream.len() != size + 4 && stream.len() != size + 8 {
        return Err(DumpError::ListSize {
            count: count as u64,
            size: stream.len(),
        });
    }
    Ok(Table::new(&stream[stream.len() - size..], E::SIZE, count))
}

/// A list whose header of at least `head` bytes, which are there, starts with its own size and that of an entry. Errors, in
/// order: `EntrySize` if entries are smaller than their fields; `ListSize` if the entries start in the header, or pass the
/// stream's end.
#[tactic(auto, unfolding(crate::specs::Lists::list_with))]
fn list_with<E: DumpRecord>(stream: &[u8], head: usize, count: u64) -> Result<Table<'_, E>>
    requires fields { 8 ≤ head }
    requires there { head ≤ length stream.now }
    ensures { DumpReturns (λ t. records E.record_at t.bytes.now t.stride t.count) result
        (list_with E.record_at E.SIZE head count stream.entry.now) }
{
    let start = read_u32(stream, 0) as usize;
    let size = read_u32(stream, 4);
    let stride = size as usize;
    if stride < E::SIZE {
        return Err(DumpError::EntrySize {
            size,
            needed: E::SIZE,
        });
    }
    let end = start as u128 + stride as u128 * u128::from(count);
    if start < head || (stream.len() as u128) < end {
        return Err(DumpError::ListSize {
            count,
            size: stream.len(),
        });
    }
    Ok(Table::new(&stream[start..], stride, count as usize))
}

/// A list with a header of at least `head` bytes, in which the number of entries has 4 bytes. Errors, in order: `Short` if the
/// header is truncated; those of `list_with`.
#[tactic(auto, unfolding(crate::specs::Lists::headed_list))]
pub fn headed_list<E: DumpRecord>(stream: &[u8], head: usize) -> Result<Table<'_, E>>
    requires { 12 ≤ head }
    ensures { DumpReturns (λ t. records E.record_at t.bytes.now t.stride t.count) result
        (headed_list E.record_at E.SIZE head 4 stream.entry.now) }
{
    require_fields(stream, head)?;
    list_with(stream, head, u64::from(read_u32(stream, 8)))
}

/// The same, in which the number of entries has 8 bytes, and the header 16.
#[tactic(auto, unfolding(crate::specs::Lists::headed_list))]
pub fn headed_list_64<E: DumpRecord>(stream: &[u8]) -> Result<Table<'_, E>>
    ensures { DumpReturns (λ t. records E.record_at t.bytes.now t.stride t.count) result
        (headed_list E.record_at E.SIZE 16 8 stream.entry.now) }
{
    require_fields(stream, 16)?;
    list_with(stream, 16, read_u64(stream, 8))
}
