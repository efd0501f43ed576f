//! The memory of a minidump by addresses. Its lists have pieces in no order, which may overlap; the byte at an address is that of the
//! first piece that has one there, those of the memory list before those of a full dump's.

ghost use Rattle.std.specs.Prelude.{◌≡◌, ◌+◌, ◌-◌, ◌++◌, ◌<◌, ℕ, List, IfErr, IfOk, OnErr, length, IsTrue, OnOk, Some, slice_index};
ghost use Rattle.std.specs.List.{find};
ghost use Rattle.std.specs.Option.{option_map};
ghost use Rattle.pe_core.specs.Bytes.{holds};
ghost use Rattle.pe_core.specs.Refusals.{ReturnsUnlessMemory, kind_of};
ghost use Rattle.pe_core.specs.Refusals as refused;
ghost use Rattle.pe_frame.specs.MemoryLists.{are_inside, listed_byte, lists_byte, memory_of};
ghost use Rattle.pe_frame.specs.declared.memory_list.MemoryPiece.{MemoryPiece};
ghost use Rattle.pe_minidump.specs.Dumps.{dump_view};
ghost use Rattle.pe_minidump.specs.Pieces.{piece_view};
ghost use Rattle.pe_minidump.specs.Records.{memory_descriptor, thread};
ghost use Rattle.pe_minidump.specs.Tables.{records};
ghost use Rattle.pe_stacks.specs.DumpMemory.{described_all, listed_all, listed_piece, pieces_and_stacks_of, pieces_of, stacks_of};

use crate::ranges::IndexedRanges;
use pe_core::{Result, u64_at};
use pe_frame::{Memory, MemoryList, MemoryPiece};
use pe_minidump::{Dump, Memory64List, MemoryDescriptor, Table, Thread};
use std::alloc::{AllocError, Allocator};

/// The bytes of a word.
const SIZE_OF_WORD: u64 = 8;

/// A piece as walks take it: where its bytes are in the file.
fn listed_piece(file: &[u8], piece: &pe_minidump::MemoryPiece<'_>) -> MemoryPiece
    ensures { result ≡ listed_piece file.now (piece_view piece.now) }
{
    MemoryPiece {
        start: piece.start,
        offset: piece.offset.min(file.len() as u64),
        length: piece.bytes.len() as u64,
    }
}

/// Appends the pieces of the memory list.
fn push_list<A: Allocator>(
    dump: &Dump<'_>,
    list: &Table<'_, MemoryDescriptor>,
    pieces: &mut Vec<MemoryPiece, A>,
) -> std::result::Result<(), AllocError>
    ensures pushed { OnOk result (pieces.new.items ≡ pieces.old.items
        ++ described_all dump.now.bytes.now (records memory_descriptor list.now.bytes.now list.now.stride list.now.count)) }
    ensures refused { OnErr result (0 < length (described_all dump.now.bytes.now (records memory_descriptor list.now.bytes.now list.now.stride list.now.count))) }
{
    for entry in list.iter() {
        let piece = dump.piece(entry);
        pieces.push(listed_piece(dump.bytes, &piece))?;
    }
    Ok(())
}

/// Appends the pieces of a full dump's list.
fn push_list_64<A: Allocator>(
    dump: &Dump<'_>,
    list: &Memory64List<'_>,
    pieces: &mut Vec<MemoryPiece, A>,
) -> std::result::Result<(), AllocError>
    requires { list.now.file.now ≡ dump.now.bytes.now }
    ensures pushed { OnOk result (pieces.new.items ≡ pieces.old.items
        ++ listed_all dump.now.bytes.now (record { base_rva = list.now.base_rva; ranges = list.now.ranges.now })) }
    ensures refused { OnErr result (0 < length (listed_all dump.now.bytes.now (record { base_rva = list.now.base_rva; ranges = list.now.ranges.now }))) }
{
    for piece in list.iter() {
        pieces.push(listed_piece(dump.bytes, &piece))?;
    }
    Ok(())
}

/// The pieces of memory of a dump that its file has, those of the memory list first. A list that is refused has none: the calls of
/// `Dump` that read it say why. Error: memory runs out, which it does not where there are no pieces.
pub fn memory_pieces<A: Allocator>(
    alloc: A,
    dump: &Dump<'_>,
) -> std::result::Result<Vec<MemoryPiece, A>, AllocError>
    ensures made { IfOk result (λ v. v.items ≡ pieces_of (dump_view dump.now)) }
    ensures refused { IfErr result (λ e. 0 < length (pieces_of (dump_view dump.now))) }
{
    let mut pieces = Vec::new(alloc);
    if let Ok(Some(list)) = dump.memory_list() {
        push_list(dump, &list, &mut pieces)?;
    }
    if let Ok(Some(list)) = dump.memory64_list() {
        push_list_64(dump, &list, &mut pieces)?;
    }
    Ok(pieces)
}

/// Appends the stacks of threads.
fn push_stacks<A: Allocator>(
    dump: &Dump<'_>,
    threads: &Table<'_, Thread>,
    pieces: &mut Vec<MemoryPiece, A>,
) -> std::result::Result<(), AllocError>
    ensures pushed { OnOk result (pieces.new.items ≡ pieces.old.items
        ++ stacks_of dump.now.bytes.now (records thread threads.now.bytes.now threads.now.stride threads.now.count)) }
    ensures refused { OnErr result (0 < length (stacks_of dump.now.bytes.now (records thread threads.now.bytes.now threads.now.stride threads.now.count))) }
{
    for entry in threads.iter() {
        if entry.stack.memory.rva != 0 {
            let piece = dump.piece(entry.stack);
            pieces.push(listed_piece(dump.bytes, &piece))?;
        }
    }
    Ok(())
}

/// The same pieces, and after them the stacks that the records of threads name: a dump without a list of memory has these alone. At
/// offset 0, which full dumps say of all stacks, there is none: the file has its header there. Error: memory runs out, which it does
/// not where there are no pieces.
pub fn memory_and_stacks<A: Allocator>(
    alloc: A,
    dump: &Dump<'_>,
) -> std::result::Result<Vec<MemoryPiece, A>, AllocError>
    ensures made { IfOk result (λ v. v.items ≡ pieces_and_stacks_of (dump_view dump.now)) }
    ensures refused { IfErr result (λ e. 0 < length (pieces_and_stacks_of (dump_view dump.now))) }
{
    let mut pieces = memory_pieces(alloc, dump)?;
    if let Ok(Some(threads)) = dump.threads() {
        push_stacks(dump, &threads, &mut pieces)?;
    }
    Ok(pieces)
}

/// The memory of a minidump, by its pieces in any order. Nothing is copied.
#[derive(Drop)]
pub struct IndexedMemory<'a, A: Allocator + Drop> {
    bytes: &'a [u8],
    pieces: IndexedRanges<'a, MemoryPiece, A>,
    ghost inside: { IsTrue (are_inside bytes.now pieces.ranges.now) },
}

impl<'a, A: Allocator + Copy + Drop> IndexedMemory<'a, A> {
    /// Memory in these pieces of the bytes of a file. Errors: `Short` if a piece does not lie in the bytes; `Memory`, which it is not
    /// where there are no pieces.
    pub fn new(alloc: A, bytes: &'a [u8], pieces: &'a [MemoryPiece]) -> Result<IndexedMemory<'a, A>>
        ensures pieces { ReturnsUnlessMemory {Y = List ℕ × List MemoryPiece}
            (λ m. (m.bytes.now, m.pieces.ranges.now)) result
            (memory_of bytes.entry.now pieces.entry.now) }
        ensures memory { IfErr result (λ e. kind_of e ≡ refused.Memory → 0 < length pieces.entry.now) }
    {
        MemoryList::new(bytes, pieces)?;
        Ok(IndexedMemory {
            bytes,
            pieces: IndexedRanges::new(alloc, pieces)?,
        })
    }

    /// The first piece that has a byte at an address.
    fn piece_at(&self, address: u64) -> Option<&'a MemoryPiece>
        ensures { option_map (λ p. p.now) result ≡ find (lists_byte address) self.now.pieces.ranges.now }
    {
        self.pieces.find(address)
    }
}

/// The byte of a piece at an address that it has.
fn byte_of(bytes: &[u8], piece: &MemoryPiece, address: u64) -> Option<u8>
    requires has { IsTrue (lists_byte address piece.now) }
    requires inside { IsTrue (holds bytes.now piece.now.offset piece.now.length) }
    ensures { result ≡ Some (slice_index bytes.now (piece.now.offset + (address - piece.now.start))) }
{
    let index = piece.offset + (address - piece.start);
    Some(bytes[index as usize])
}

impl<'a, A: Allocator + Copy + Drop> IndexedMemory<'a, A> {
    /// The byte at an address. `None` if no piece has one there.
    pub fn byte_at(&self, address: u64) -> Option<u8>
        ensures { result ≡ listed_byte self.now.bytes.now self.now.pieces.ranges.now address }
    {
        match self.piece_at(address) {
            Some(piece) => byte_of(self.bytes, piece, address),
            None => None,
        }
    }
}

impl<'a, A: Allocator + Copy + Drop> Memory for IndexedMemory<'a, A> {
    ghost use Rattle.pe_frame.specs.MemoryLists.{listed_word};

    ghost word = { λ s. listed_word s.bytes.now s.pieces.ranges.now };

    fn u64_at(&self, address: u64) -> Option<u64> {
        if address > u64::MAX - (SIZE_OF_WORD - 1) {
            return None;
        }
        let mut bytes = [0; SIZE_OF_WORD as usize];
        for index in 0..SIZE_OF_WORD as usize {
            bytes[index] = self.byte_at(address + index as u64)?;
        }
        u64_at(&bytes, 0).ok()
    }
}
