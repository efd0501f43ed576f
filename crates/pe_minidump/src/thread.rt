//! The threads of a process, stream 3: `MINIDUMP_THREAD_LIST`, entries of 48 bytes (`MINIDUMP_THREAD`). The context has the
//! registers of the thread: `ContextX64` reads that of x64, `ContextArm64` that of ARM64. The thread that crashed has two: the
//! one of the exception is that of the crash, and the one here may be that of the code which wrote the dump.
//!
//! <https://learn.microsoft.com/windows/win32/api/minidumpapiset/ns-minidumpapiset-minidump_thread_list>
//! <https://learn.microsoft.com/windows/win32/api/minidumpapiset/ns-minidumpapiset-minidump_thread>

ghost use Rattle.std.specs.Prelude.{◌≡◌, ◌+◌, ◌≤◌, length};
ghost use Rattle.std.proofs.Common.{arith};
ghost use Rattle.std.specs.Option.{option_map};
ghost use Rattle.pe_minidump.specs.Dumps.{dump_view};
ghost use Rattle.pe_minidump.specs.Records.{thread};
ghost use Rattle.pe_minidump.specs.Refusals.{DumpReturns};
ghost use Rattle.pe_minidump.specs.Streams.{threads};
ghost use Rattle.pe_minidump.specs.Tables.{records};

use crate::dump::Dump;
use crate::error::Result;
use crate::list::counted_list;
use crate::location::Location;
use crate::memory::MemoryDescriptor;
use crate::stream_type::THREAD_LIST_STREAM;
use crate::table::{DumpRecord, Table};
use pe_core::{read_u32, read_u64};

/// A thread (`MINIDUMP_THREAD`), 48 bytes.
#[repr(C)]
#[derive(Clone, Copy, Debug, PartialEq)]
pub struct Thread {
    /// The ID of the thread.
    pub thread_id: u32,
    /// How often it is suspended; 0 if it runs.
    pub suspend_count: u32,
    /// The priority class of the process.
    pub priority_class: u32,
    /// The priority of the thread.
    pub priority: u32,
    /// The address of its environment block (`TEB`).
    pub teb: u64,
    /// The memory of its stack. It may be empty, and in a full dump its RVA may be 0: the memory lists have what there is of it.
    pub stack: MemoryDescriptor,
    /// Where its context stands. No bytes where it has none, as the thread that writes a dump of its own process.
    pub thread_context: Location,
}

impl DumpRecord for Thread {
    ghost SIZE = { 48 };

    ghost record_at = { thread };

    const SIZE: usize = 48;

    const LIST: &'static str = "DumpThreads";

    #[tactic(auto, unfolding(crate::specs::Records::thread))]
    fn at(bytes: &[u8], offset: usize) -> Thread {
        Thread {
            thread_id: read_u32(bytes, offset),
            suspend_count: read_u32(bytes, offset + 4),
            priority_class: read_u32(bytes, offset + 8),
            priority: read_u32(bytes, offset + 12),
            teb: read_u64(bytes, offset + 16),
            stack: MemoryDescriptor::at(bytes, offset + 24),
            thread_context: Location::at(bytes, offset + 40),
        }
    }

    ghost is_small = { omega arith };
}

impl<'a> Dump<'a> {
    /// The threads (`ThreadListStream`); `None` without such a stream. Errors, in order: `Location`; `Short` if the number
    /// of entries is truncated; `ListSize` if the
    /// stream has another size than the number and so many entries, with 4 bytes between them or none.
    pub fn threads(&self) -> Result<Option<Table<'a, Thread>>>
        ensures { DumpReturns (option_map (λ t. records thread t.bytes.now t.stride t.count)) result
            (threads (dump_view self.now)) }
    {
        match self.stream(THREAD_LIST_STREAM)? {
            Some(stream) => Ok(Some(counted_list(stream)?)),
            None => Ok(None),
        }
    }
}
