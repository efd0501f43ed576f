//! The memory of a dump in ascending order, as runs of addresses whose bytes follow one another in the file too. The pieces of a dump
//! stand in no order and may overlap; the first that has an address counts. Runs do not overlap: an address is looked up in them by
//! binary search, and an image that the dump has whole lies in one of them.

ghost use Rattle.std.specs.Prelude.{◌≡◌, ◌+◌, ◌<◌, ◌≤◌, ◌^◌, IsTrue, length, take};
ghost use Rattle.pe_frame.specs.MemoryLists.{lists_byte};
ghost use Rattle.pe_stacks.specs.MemoryRuns.{AreRuns, IsRunOf, PutsRuns, addresses_of, appended, end_low, is_followed, part_of};
ghost use Rattle.pe_core.specs.RangeIndexes.{Indexes};

use crate::range_index::put_index;
use pe_core::RangeEntry;
use pe_frame::MemoryPiece;

/// How many addresses there are from the start of an entry up to that of the next one, or of the last entry to the last address.
fn addresses_of(entries: &[RangeEntry], index: usize, start: u64) -> u64
    requires { index < length entries.now }
    ensures { result ≡ addresses_of entries.now index start }
{
    if index + 1 < entries.len() {
        entries[index + 1].start.saturating_sub(start)
    } else {
        u64::MAX
    }
}

/// The part of a piece from an address that it has on, at most so many bytes.
fn part_of(piece: &MemoryPiece, address: u64, most: u64) -> MemoryPiece
    requires has { IsTrue (lists_byte address piece.now) }
    requires low { piece.now.offset + piece.now.length < 2 ^ 64 }
    ensures { result ≡ part_of piece.now address most }
{
    let skipped = address - piece.start;
    MemoryPiece {
        start: address,
        offset: piece.offset + skipped,
        length: most.min(piece.length - skipped),
    }
}

/// The run of the addresses of an entry of an index of pieces; of no bytes where no piece has them.
fn run_of(pieces: &[MemoryPiece], entries: &[RangeEntry], index: usize) -> MemoryPiece
    requires index { Indexes (λ p. p.start) (λ p. p.length) 0 pieces.now entries.now }
    requires low { IsTrue (end_low pieces.now) }
    requires within { index < length entries.now }
    ensures { IsRunOf pieces.now entries.now index result }
{
    let entry = entries[index];
    let most = addresses_of(entries, index, entry.start);
    if entry.number == 0 || most == 0 {
        return MemoryPiece {
            start: entry.start,
            offset: 0,
            length: 0,
        };
    }
    part_of(&pieces[entry.number as usize - 1], entry.start, most)
}

/// Whether a run follows another one, in memory and in the file.
fn is_followed(run: &MemoryPiece, next: &MemoryPiece) -> bool
    ensures { result ≡ is_followed run.now next.now }
{
    let length = u128::from(run.length);
    u128::from(run.start) + length == u128::from(next.start)
        && u128::from(run.offset) + length == u128::from(next.offset)
}

/// Appends a run to the first ones of a room, and returns how many there are then. One of no bytes is left out, and one that follows
/// the last continues it.
fn append(run: MemoryPiece, room: &mut [MemoryPiece], count: usize) -> usize
    requires room { count < length room.old }
    requires low { 0 < run.length → run.offset + run.length < 2 ^ 64 }
    ensures runs { take result room.new ≡ appended (take count room.old) run }
    ensures count { result ≤ count + 1 }
    ensures room { length room.new ≡ length room.old }
{
    if run.length == 0 {
        return count;
    }
    if count > 0 && is_followed(&room[count - 1], &run) {
        room[count - 1].length += run.length;
        return count;
    }
    room[count] = run;
    count + 1
}

/// Writes the runs of pieces to the start of a room, by an index of the pieces, and returns how many there are.
pub(crate) fn put_runs(
    pieces: &[MemoryPiece],
    entries: &[RangeEntry],
    room: &mut [MemoryPiece],
) -> usize
    requires index { Indexes (λ p. p.start) (λ p. p.length) 0 pieces.now entries.now }
    requires low { IsTrue (end_low pieces.now) }
    requires room { length entries.now ≤ length room.old }
    ensures runs { AreRuns pieces.now (take result room.new) }
    ensures count { result ≤ length entries.now }
    ensures room { length room.new ≡ length room.old }
{
    let mut count = 0;
    for index in 0..entries.len() {
        let run = run_of(pieces, entries, index);
        count = append(run, room, count);
    }
    count
}

/// Writes the runs of pieces to the start of a room, and returns how many there are, two at most for each piece; by an index of the
/// pieces, which it makes at the start of `entries`. `None` where `entries` has room for fewer than four for each piece, or `runs`
/// for fewer than two; then nothing changes.
pub fn put_memory_runs(
    pieces: &[MemoryPiece],
    entries: &mut [RangeEntry],
    runs: &mut [MemoryPiece],
) -> Option<usize>
    requires low { IsTrue (end_low pieces.now) }
    ensures { PutsRuns pieces.now (entries.old, runs.old) (entries.new, runs.new) result }
{
    if runs.len() < 2 * pieces.len() {
        return None;
    }
    match put_index(pieces, entries) {
        Ok(count) => {
            let (index, _) = entries.split_at(count);
            let (room, _) = runs.split_at_mut(count);
            Some(put_runs(pieces, index, room))
        }
        Err(_) => None,
    }
}
