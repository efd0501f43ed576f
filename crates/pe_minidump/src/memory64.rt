//! The memory of a full dump, stream 9 (`MINIDUMP_MEMORY64_LIST`): the number of pieces and the offset of the first byte, 8
//! bytes each, then entries of 16 bytes (`MINIDUMP_MEMORY_DESCRIPTOR64`), an address and a size. The bytes of each piece
//! follow those of the piece before it, so they are found by going over all pieces: an iterator keeps the sum.
//!
//! <https://learn.microsoft.com/windows/win32/api/minidumpapiset/ns-minidumpapiset-minidump_memory64_list>

ghost use Rattle.std.specs.Prelude.{◌≡◌, ◌+◌, ◌*◌, ◌/◌, ◌-◌, ◌^◌, ◌<◌, ◌≤◌, length, nat_lt, if◌then◌else◌, IfOk, IfSome, None, Option, Some};
ghost use Rattle.std.specs.Iterator.{UpTo, YieldsFirst, YieldsFirstBy, item_count};
ghost use Rattle.std.specs.Iterator.SizeHint.{IsWithinCount};
ghost use Rattle.std.specs.Option.{option_map};
ghost use Rattle.pe_minidump.specs.Dumps.{dump_view, read_stream};
ghost use Rattle.pe_minidump.specs.Memory64.{Listed64, memory64_of, piece64, pieces_from, size_of_first, size_of_piece};
ghost use Rattle.pe_minidump.specs.Pieces.{piece_view};
ghost use Rattle.pe_minidump.specs.Refusals.{DumpReturns};

use crate::dump::Dump;
use crate::error::{DumpError, Result};
use crate::location::require_fields;
use crate::memory::{MemoryPiece, piece};
use crate::stream_type::MEMORY64_LIST_STREAM;
use pe_core::read_u64;

/// The size of the fields before the entries in bytes.
const SIZE_OF_HEAD: usize = 16;

/// The size of an entry in bytes.
const SIZE_OF_RANGE: usize = 16;

/// The pieces of memory of a full dump.
#[derive(Clone, Copy)]
pub struct Memory64List<'a> {
    file: &'a [u8],
    ranges: &'a [u8],
    base_rva: u64,
    ghost fits: { base_rva + size_of_first ranges.now (length ranges.now / 16) < 2 ^ 64 },
}

/// Where the bytes of all pieces end, from `base` on.
#[tactic(auto, using(crate::proofs::Sums::first_more), unfolding(crate::specs::Memory64::size_of_first))]
fn end_of_pieces(ranges: &[u8], base: u64) -> u128
    ensures { result ≡ base + size_of_first ranges.now (length ranges.now / 16) }
{
    let count = ranges.len() / SIZE_OF_RANGE;
    let mut end = u128::from(base);
    for index in 0..count {
        end += u128::from(read_u64(ranges, SIZE_OF_RANGE * index + 8));
    }
    end
}

impl<'a> Memory64List<'a> {
    /// The list of a stream. Errors, in order: `Short`; `ListSize`; `Location` if the bytes of the pieces end past offset
    /// 2^64 - 1.
    #[tactic(auto, unfolding(crate::specs::Memory64::memory64_of))]
    pub fn parse(file: &'a [u8], stream: &'a [u8]) -> Result<Memory64List<'a>>
        ensures list { DumpReturns {Y = Listed64}
            (λ l. record { base_rva = l.base_rva; ranges = l.ranges.now }) result (memory64_of stream.entry.now) }
        ensures of_file { IfOk result (λ l. l.file.now ≡ file.entry.now) }
    {
        require_fields(stream, SIZE_OF_HEAD)?;
        let (count, base_rva) = (read_u64(stream, 0), read_u64(stream, 8));
        let ranges = &stream[SIZE_OF_HEAD..];
        if ranges.len() as u128 != 16 * u128::from(count) {
            return Err(DumpError::ListSize {
                count,
                size: stream.len(),
            });
        }
        if end_of_pieces(ranges, base_rva) > u128::from(u64::MAX) {
            return Err(DumpError::Location {
                rva: base_rva,
                size: u64::MAX,
                length: file.len(),
            });
        }
        Ok(Memory64List {
            file,
            ranges,
            base_rva,
        })
    }

    /// The offset in the file of the first byte of the first piece.
    pub fn base_rva(&self) -> u64
        ensures { result ≡ self.now.base_rva }
    {
        self.base_rva
    }

    /// The number of pieces.
    pub fn len(&self) -> usize
        ensures { result ≡ length self.now.ranges.now / 16 }
    {
        self.ranges.len() / SIZE_OF_RANGE
    }

    /// The piece with an index, whose bytes start at an offset.
    fn piece(&self, index: usize, offset: u64) -> MemoryPiece<'a>
        requires inside { index < length self.now.ranges.now / 16 }
        requires at { offset ≡ self.now.base_rva + size_of_first self.now.ranges.now index }
        ensures { piece_view result ≡ piece64 self.now.file.now self.now.ranges.now self.now.base_rva index }
    {
        let entry = SIZE_OF_RANGE * index;
        let start = read_u64(self.ranges, entry);
        piece(self.file, start, offset, read_u64(self.ranges, entry + 8))
    }

    /// The offset after the bytes of the piece with an index, which start at an offset.
    #[tactic(auto, using(crate::proofs::Sums::first_more))]
    fn offset_after(&self, index: usize, offset: u64) -> u64
        requires inside { index < length self.now.ranges.now / 16 }
        requires at { offset ≡ self.now.base_rva + size_of_first self.now.ranges.now index }
        ensures { result ≡ self.now.base_rva + size_of_first self.now.ranges.now (index + 1) }
    {
        offset + read_u64(self.ranges, SIZE_OF_RANGE * index + 8)
    }

    /// The pieces in the order of the list.
    #[tactic(auto, unfolding(crate::specs::Memory64::size_of_first))]
    pub fn iter(&self) -> Memory64Pieces<'a>
        ensures { pieces_from result.list.file.now result.list.ranges.now result.list.base_rva result.next
            ≡ pieces_from self.now.file.now self.now.ranges.now self.now.base_rva 0 }
    {
        Memory64Pieces {
            list: *self,
            next: 0,
            offset: self.base_rva,
        }
    }
}

/// The pieces that are left of a list.
#[derive(Drop)]
pub struct Memory64Pieces<'a> {
    list: Memory64List<'a>,
    next: usize,
    offset: u64,
    ghost at: { offset ≡ list.base_rva + size_of_first list.ranges.now next },
}

impl<'a> Iterator for Memory64Pieces<'a> {
    type Item = MemoryPiece<'a>;

    ghost next_gives = { YieldsFirstBy piece_view (λ s. pieces_from s.list.file.now s.list.ranges.now s.list.base_rva s.next) };

    ghost remaining = { item_count (λ s. pieces_from s.list.file.now s.list.ranges.now s.list.base_rva s.next) };

    #[tactic(auto, using(crate::proofs::Sums::pieces_more, crate::proofs::Sums::pieces_none))]
    fn next(&mut self) -> Option<MemoryPiece<'a>> {
        if self.list.len() <= self.next {
            return None;
        }
        let first = self.list.piece(self.next, self.offset);
        self.offset = self.list.offset_after(self.next, self.offset);
        self.next += 1;
        Some(first)
    }
}

impl<'a> Dump<'a> {
    /// The pieces of memory of a full dump (`Memory64ListStream`); `None` without such a stream. Errors, in order:
    /// `Location`; `Short` if the stream has fewer than 16 bytes; `ListSize` if it has another size than so many entries;
    /// `Location` if the bytes of the pieces end past offset 2^64 - 1. It reads each entry once.
    pub fn memory64_list(&self) -> Result<Option<Memory64List<'a>>>
        ensures list { DumpReturns {Y = Option Listed64}
            (option_map (λ l. record { base_rva = l.base_rva; ranges = l.ranges.now })) result
            (read_stream memory64_of (dump_view self.now) 9) }
        ensures of_file { IfOk result (λ found. IfSome found (λ l. l.file.now ≡ self.now.bytes.now)) }
    {
        match self.stream(MEMORY64_LIST_STREAM)? {
            Some(stream) => Ok(Some(Memory64List::parse(self.bytes, stream)?)),
            None => Ok(None),
        }
    }
}
