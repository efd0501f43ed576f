//! The memory of a minidump, a piece a call. `MemoryListStream` lists pieces with the offsets of their bytes,
//! `Memory64ListStream`, of full dumps, pieces whose bytes follow one another, so that a walk keeps the sum of their sizes.
//! Pieces stand in no order, and may overlap; the first that has an address counts. The calls that walk stacks take them as they
//! are, with the bytes of the dump as their memory.

ghost use Rattle.std.specs.Prelude.{◌≡◌};
ghost use Rattle.calls_stacks.specs.DumpMemory.{described, memory64_after, memory64_at, memory64_piece, piece_reported};
ghost use Rattle.calls_stacks.specs.DumpRecords.{reported_in};
ghost use Rattle.calls_stacks.specs.Dumps.{dump_answer};
ghost use Rattle.pe_core.specs.Refusals.{answer_of};
ghost use Rattle.pe_minidump.specs.Lists.{counted_list};
ghost use Rattle.pe_minidump.specs.Pieces.{piece_view};
ghost use Rattle.pe_minidump.specs.Records.{memory_descriptor};

use crate::dump::lists::counted_at;
use calls_base::ranges::Range;
use calls_base::walks::next_entry;
use pe_core::read_u64;
use pe_frame::MemoryPiece;
use pe_minidump::{Memory64List, MemoryDescriptor, Result, located, piece};

/// The size of an entry of a full dump's list in bytes.
const SIZE_OF_RANGE: usize = 16;

/// The size of the fields before these entries in bytes.
const SIZE_OF_HEAD: u64 = 16;

/// A piece of memory.
#[repr(C)]
#[derive(Clone, Copy)]
pub struct DumpPiece {
    /// Its address, and where the bytes are that the dump has of it. They lie in the bytes of the dump.
    pub memory: MemoryPiece,
    /// How many more the dump says it has, which the file, which was truncated, does not have.
    pub lost: u64,
}

/// A walk over the pieces of a full dump.
#[repr(C)]
#[derive(Clone, Copy)]
pub struct Memory64Walk {
    /// The entries that are left, 16 bytes each.
    pub entries: Range,
    /// The offset of the bytes of the next piece.
    pub next: u64,
}

/// A piece as callers get it.
fn piece_reported(bytes: &[u8], piece: &pe_minidump::MemoryPiece<'_>) -> DumpPiece
    ensures { result ≡ piece_reported bytes.now (piece_view piece.now) }
{
    DumpPiece {
        memory: MemoryPiece {
            start: piece.start,
            offset: piece.offset.min(bytes.len() as u64),
            length: piece.bytes.len() as u64,
        },
        lost: piece.lost,
    }
}

/// The piece that an entry of the list leads to.
pub fn described(bytes: &[u8], entry: &MemoryDescriptor) -> DumpPiece
    ensures { result ≡ described bytes.now entry.now }
{
    let (offset, size) = (u64::from(entry.memory.rva), u64::from(entry.memory.size));
    piece_reported(
        bytes,
        &piece(bytes, entry.start_of_memory_range, offset, size),
    )
}

pub fn piece_at(bytes: &[u8], stream: &Range, index: u64) -> Result<Option<DumpPiece>>
    ensures { dump_answer result
        ≡ reported_in (described bytes.now) (counted_list memory_descriptor 16) bytes.now stream.now index }
{
    match counted_at(bytes, stream, index)? {
        Some(entry) => Ok(Some(described(bytes, &entry))),
        None => Ok(None),
    }
}

pub fn memory64_at(bytes: &[u8], stream: &Range) -> Result<Memory64Walk>
    ensures { dump_answer result ≡ memory64_at bytes.now stream.now }
{
    let entries = located(bytes, stream.offset, stream.length)?;
    let list = Memory64List::parse(bytes, entries)?;
    Ok(Memory64Walk {
        entries: Range {
            offset: stream.offset + SIZE_OF_HEAD,
            length: stream.length.saturating_sub(SIZE_OF_HEAD),
        },
        next: list.base_rva(),
    })
}

/// The next piece of a walk. It is over after an error.
pub fn next_memory64(bytes: &[u8], walk: &mut Memory64Walk) -> pe_core::Result<Option<DumpPiece>>
    ensures piece { answer_of result ≡ memory64_piece bytes.now walk.old }
    ensures walk { walk.new ≡ memory64_after bytes.now walk.old }
{
    let Some(entry) = next_entry(bytes, &mut walk.entries, SIZE_OF_RANGE)? else {
        return Ok(None);
    };
    let (start, size) = (read_u64(entry, 0), read_u64(entry, 8));
    let found = piece(bytes, start, walk.next, size);
    walk.next = walk.next.saturating_add(size);
    Ok(Some(piece_reported(bytes, &found)))
}
