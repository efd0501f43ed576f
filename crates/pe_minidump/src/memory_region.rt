//! The regions of memory of the process, stream 16: `MINIDUMP_MEMORY_INFO_LIST`, whose header says how large its entries
//! are. `MINIDUMP_MEMORY_INFO` has 48 bytes. They say what memory there was, not what stood in it.
//!
//! <https://learn.microsoft.com/windows/win32/api/minidumpapiset/ns-minidumpapiset-minidump_memory_info_list>
//! <https://learn.microsoft.com/windows/win32/api/minidumpapiset/ns-minidumpapiset-minidump_memory_info>

ghost use Rattle.std.specs.Prelude.{◌≡◌, ◌+◌, ◌≤◌, length};
ghost use Rattle.std.proofs.Common.{arith};
ghost use Rattle.std.specs.Option.{option_map};
ghost use Rattle.pe_minidump.specs.Dumps.{dump_view};
ghost use Rattle.pe_minidump.specs.Records.{memory_region};
ghost use Rattle.pe_minidump.specs.Refusals.{DumpReturns};
ghost use Rattle.pe_minidump.specs.Streams.{memory_regions};
ghost use Rattle.pe_minidump.specs.Tables.{records};

use crate::dump::Dump;
use crate::error::Result;
use crate::list::headed_list_64;
use crate::stream_type::MEMORY_INFO_LIST_STREAM;
use crate::table::{DumpRecord, Table};
use pe_core::{read_u32, read_u64};

/// A region of memory (`MINIDUMP_MEMORY_INFO`), 48 bytes.
#[repr(C)]
#[derive(Clone, Copy)]
pub struct MemoryRegion {
    /// The address of the first byte of the region.
    pub base_address: u64,
    /// The address of the allocation that it is part of.
    pub allocation_base: u64,
    /// How the allocation was protected at first, `PAGE_*`.
    pub allocation_protect: u32,
    /// How many bytes the region has.
    pub region_size: u64,
    /// `MEM_COMMIT`, `MEM_RESERVE` or `MEM_FREE`.
    pub state: u32,
    /// How it is protected, `PAGE_*`.
    pub protect: u32,
    /// `MEM_IMAGE`, `MEM_MAPPED` or `MEM_PRIVATE` (`Type`).
    pub memory_type: u32,
}

impl DumpRecord for MemoryRegion {
    ghost SIZE = { 48 };

    ghost record_at = { memory_region };

    const SIZE: usize = 48;

    const LIST: &'static str = "DumpMemoryRegions";

    #[tactic(auto, unfolding(crate::specs::Records::memory_region))]
    fn at(bytes: &[u8], offset: usize) -> MemoryRegion {
        MemoryRegion {
            base_address: read_u64(bytes, offset),
            allocation_base: read_u64(bytes, offset + 8),
            allocation_protect: read_u32(bytes, offset + 16),
            region_size: read_u64(bytes, offset + 24),
            state: read_u32(bytes, offset + 32),
            protect: read_u32(bytes, offset + 36),
            memory_type: read_u32(bytes, offset + 40),
        }
    }

    ghost is_small = { omega arith };
}

impl<'a> Dump<'a> {
    /// The regions of memory (`MemoryInfoListStream`); `None` without such a stream. Errors, in order: `Location`; `Short`
    /// if the header is truncated; `EntrySize` if its entries have fewer than 48 bytes; `ListSize` if the entries do not all
    /// lie in the stream, or start in the header.
    pub fn memory_regions(&self) -> Result<Option<Table<'a, MemoryRegion>>>
        ensures { DumpReturns (option_map (λ t. records memory_region t.bytes.now t.stride t.count)) result
            (memory_regions (dump_view self.now)) }
    {
        match self.stream(MEMORY_INFO_LIST_STREAM)? {
            Some(stream) => Ok(Some(headed_list_64(stream)?)),
            None => Ok(None),
        }
    }
}
