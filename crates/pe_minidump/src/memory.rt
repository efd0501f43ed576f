//! The memory of a dump. Stream 5 (`MINIDUMP_MEMORY_LIST`) lists pieces of 16 bytes (`MINIDUMP_MEMORY_DESCRIPTOR`), each
//! with its address and where its bytes stand in the file. They stand in no order, and may overlap. Stream 9
//! (`MINIDUMP_MEMORY64_LIST`), of dumps of all memory, lists pieces of 16 bytes too (`MINIDUMP_MEMORY_DESCRIPTOR64`), whose
//! bytes stand one after the other.
//!
//! A file that was truncated ends in such bytes: a piece has those that there are, and says how many are lost.
//!
//! <https://learn.microsoft.com/windows/win32/api/minidumpapiset/ns-minidumpapiset-minidump_memory_descriptor>
//! <https://learn.microsoft.com/windows/win32/api/minidumpapiset/ns-minidumpapiset-minidump_memory64_list>

ghost use Rattle.std.specs.Prelude.{◌≡◌, ◌+◌, ◌*◌, ◌<◌, ◌≤◌, drop, length, IfErr, IfOk};
ghost use Rattle.std.proofs.Common.{arith};
ghost use Rattle.std.specs.Option.{option_map};
ghost use Rattle.pe_core.specs.Rows.{each};
ghost use Rattle.pe_minidump.specs.Ranges.{piece_range};
ghost use Rattle.pe_minidump.specs.Dumps.{dump_view};
ghost use Rattle.pe_minidump.specs.Pieces.{bytes_from, piece, piece_view};
ghost use Rattle.pe_minidump.specs.Records.{memory_descriptor, memory_range};
ghost use Rattle.pe_minidump.specs.Refusals.{DumpReturns};
ghost use Rattle.pe_minidump.specs.Streams.{memory_list};
ghost use Rattle.pe_minidump.specs.Tables.{records};

use crate::address_index::AddressRange;
use crate::dump::Dump;
use crate::error::Result;
use crate::list::counted_list;
use crate::location::Location;
use crate::stream_type::MEMORY_LIST_STREAM;
use crate::table::{DumpRecord, Table};
use pe_core::read_u64;
use std::alloc::{AllocError, Allocator};

/// A piece of memory (`MINIDUMP_MEMORY_DESCRIPTOR`), 16 bytes.
#[repr(C)]
#[derive(Clone, Copy, Debug, PartialEq)]
pub struct MemoryDescriptor {
    /// The address of the first byte.
    pub start_of_memory_range: u64,
    /// Where the bytes stand in the file.
    pub memory: Location,
}

impl DumpRecord for MemoryDescriptor {
    ghost SIZE = { 16 };

    ghost record_at = { memory_descriptor };

    const SIZE: usize = 16;

    const LIST: &'static str = "DumpMemory";

    #[tactic(auto, unfolding(crate::specs::Records::memory_descriptor))]
    fn at(bytes: &[u8], offset: usize) -> MemoryDescriptor {
        MemoryDescriptor {
            start_of_memory_range: read_u64(bytes, offset),
            memory: Location::at(bytes, offset + 8),
        }
    }

    ghost is_small = { omega arith };
}

/// A piece of memory of a full dump (`MINIDUMP_MEMORY_DESCRIPTOR64`), 16 bytes. Its bytes follow those of the piece before it.
#[repr(C)]
#[derive(Clone, Copy)]
pub struct MemoryRange {
    /// The address of the first byte.
    pub start_of_memory_range: u64,
    /// How many bytes there are.
    pub data_size: u64,
}

impl DumpRecord for MemoryRange {
    ghost SIZE = { 16 };

    ghost record_at = { memory_range };

    const SIZE: usize = 16;

    const LIST: &'static str = "DumpMemory64";

    #[tactic(auto, unfolding(crate::specs::Records::memory_range))]
    fn at(bytes: &[u8], offset: usize) -> MemoryRange {
        MemoryRange {
            start_of_memory_range: read_u64(bytes, offset),
            data_size: read_u64(bytes, offset + 8),
        }
    }

    ghost is_small = { omega arith };
}

/// A piece of memory, with the bytes that the file has of it.
#[derive(Clone, Copy)]
pub struct MemoryPiece<'a> {
    /// The address of the first byte. Bytes past address 2^64 - 1 have no address.
    pub start: u64,
    /// The offset of the first byte, from the start of the file. It may be past the end of a truncated file.
    pub offset: u64,
    /// Its bytes.
    pub bytes: &'a [u8],
    /// How many more the dump says it has, which the file does not have.
    pub lost: u64,
}

/// The bytes from an offset on, none past their end.
#[tactic(auto, using(std::proofs::lemmas::List::drop_all))]
fn from_offset(file: &[u8], offset: u64) -> &[u8]
    ensures { result.now ≡ drop offset file.entry.now }
{
    if offset <= file.len() as u64 {
        &file[offset as usize..]
    } else {
        &[]
    }
}

/// As many of so many bytes from an offset on as lie in the file.
#[tactic(auto, using(std::proofs::lemmas::List::take_all))]
fn bytes_from(file: &[u8], offset: u64, size: u64) -> &[u8]
    ensures there { result.now ≡ bytes_from file.entry.now offset size }
    ensures few { length result.now ≤ size }
{
    let rest = from_offset(file, offset);
    if size <= rest.len() as u64 {
        &rest[..size as usize]
    } else {
        rest
    }
}

/// The piece of memory of so many bytes, which stand in a file from an offset on.
pub fn piece(file: &[u8], start: u64, offset: u64, size: u64) -> MemoryPiece<'_>
    ensures { piece_view result ≡ piece file.entry.now start offset size }
{
    let bytes = bytes_from(file, offset, size);
    MemoryPiece {
        start,
        offset,
        bytes,
        lost: size - bytes.len() as u64,
    }
}

impl<'a> Dump<'a> {
    /// The pieces of memory (`MemoryListStream`); `None` without such a stream. Errors, in order: `Location`; `Short` if the
    /// number of entries is truncated; `ListSize` if the stream has another size than the number and so many entries, with 4
    /// bytes between them or none. `piece` has the bytes of an entry.
    pub fn memory_list(&self) -> Result<Option<Table<'a, MemoryDescriptor>>>
        ensures { DumpReturns (option_map (λ t. records memory_descriptor t.bytes.now t.stride t.count)) result
            (memory_list (dump_view self.now)) }
    {
        match self.stream(MEMORY_LIST_STREAM)? {
            Some(stream) => Ok(Some(counted_list(stream)?)),
            None => Ok(None),
        }
    }

    /// A piece of memory, with the bytes that the file has of it.
    pub fn piece(&self, descriptor: MemoryDescriptor) -> MemoryPiece<'a>
        ensures { piece_view result ≡ piece self.now.bytes.now descriptor.start_of_memory_range
            descriptor.memory.rva descriptor.memory.size }
    {
        let location = descriptor.memory;
        let (offset, size) = (u64::from(location.rva), u64::from(location.size));
        piece(self.bytes, descriptor.start_of_memory_range, offset, size)
    }
}

impl<'a> Dump<'a> {
    /// The addresses of the bytes that the file has of the pieces of a list, in its order, of which an `AddressIndex` is made.
    /// Error: memory runs out, which it does not where the list is empty.
    #[tactic(auto, unfolding(pe_core::specs::Rows::each))]
    pub fn memory_ranges<A: Allocator>(
        &self,
        alloc: A,
        list: &Table<'_, MemoryDescriptor>,
    ) -> std::result::Result<Vec<AddressRange, A>, AllocError>
        ensures made { IfOk result (λ v. v.items ≡ each
            (λ k. piece_range self.now.bytes.now (memory_descriptor list.now.bytes.now (list.now.stride * k))) list.now.count) }
        ensures refused { IfErr result (λ e. 0 < list.now.count) }
    {
        let mut ranges = Vec::new(alloc);
        for index in 0..list.len() {
            let piece = self.piece(list.known(index));
            ranges.push(AddressRange {
                start: piece.start,
                size: piece.bytes.len() as u64,
            })?;
        }
        Ok(ranges)
    }
}
