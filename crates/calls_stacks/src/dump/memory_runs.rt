//! The memory of a dump for many walks. Its pieces stand in no order and may overlap, so that a walk over them tests all for each
//! word. Runs are the same memory in ascending order, as long as can be, in which an address is looked up by binary search; an image
//! that the dump has whole lies in one of them.

ghost use Rattle.std.specs.Prelude.{◌≡◌, ◌+◌, ◌-◌, ◌≤◌, ◌^◌, IsTrue, Some, drop, length, map, nat_le, take};
ghost use Rattle.pe_core.specs.Bytes.{holds};
ghost use Rattle.pe_frame.specs.MemoryLists.{are_inside, ascend, lists_byte};
ghost use Rattle.calls_stacks.specs.DumpMemory.{part_in, range_in};
ghost use Rattle.pe_stacks.specs.MemoryRuns.{end_low};

use calls_base::ranges::{NO_BYTES, Range};
use pe_frame::MemoryPiece;
use pe_lookup::{first_overlap, first_with};

/// Whether a piece ends below offset 2^64.
fn ends_low(piece: &MemoryPiece) -> bool
    ensures { result ≡ nat_le (piece.now.offset + piece.now.length) (2 ^ 64 - 1) }
{
    piece.offset.checked_add(piece.length).is_some()
}

/// Whether all do.
pub fn end_low(pieces: &[MemoryPiece]) -> bool
    ensures { result ≡ end_low pieces.now }
{
    pieces.iter().all(|piece| ends_low(piece))
}

/// What a piece that has the address of a range has of the range.
fn part_of(memory: &[u8], piece: &MemoryPiece, asked: &Range) -> Range
    requires has { IsTrue (lists_byte asked.now.offset piece.now) }
    requires inside { IsTrue (holds memory.now piece.now.offset piece.now.length) }
    ensures { result ≡ part_in asked.now (Some piece.now) }
{
    let skipped = asked.offset - piece.start;
    Range {
        offset: piece.offset + skipped,
        length: asked.length.min(piece.length - skipped),
    }
}

/// Whether each piece starts at or after the end of the one before it.
#[tactic(auto, using(pe_lookup::proofs::Lookups::decided))]
pub fn ascend(pieces: &[MemoryPiece]) -> bool
    ensures { result ≡ ascend pieces.now }
{
    first_overlap(pieces).is_none()
}

/// Where the bytes of a range of addresses are.
fn range_in(memory: &[u8], pieces: &[MemoryPiece], asked: &Range) -> Range
    requires ascending { IsTrue (ascend pieces.now) }
    requires inside { IsTrue (are_inside memory.now pieces.now) }
    ensures { result ≡ range_in pieces.now asked.now }
{
    match first_with(pieces, true, asked.offset) {
        Some(piece) => part_of(memory, piece, asked),
        None => NO_BYTES,
    }
}

/// Writes to `found` where the bytes of each of these ranges of addresses are.
pub fn put_ranges(memory: &[u8], pieces: &[MemoryPiece], asked: &[Range], found: &mut [Range])
    requires ascending { IsTrue (ascend pieces.now) }
    requires inside { IsTrue (are_inside memory.now pieces.now) }
    requires room { length asked.now ≤ length found.old }
    ensures found { take (length asked.now) found.new ≡ map (range_in pieces.now) asked.now }
    ensures rest { drop (length asked.now) found.new ≡ drop (length asked.now) found.old }
{
    for i in 0..asked.len() {
        found[i] = range_in(memory, pieces, &asked[i]);
    }
}
