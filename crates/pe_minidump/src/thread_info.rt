//! More on the threads of the process, stream 17: `MINIDUMP_THREAD_INFO_LIST`, whose header says how large its entries are.
//! `MINIDUMP_THREAD_INFO` has 64 bytes. It says when each started, how long it ran, and which wrote the dump.
//!
//! <https://learn.microsoft.com/windows/win32/api/minidumpapiset/ns-minidumpapiset-minidump_thread_info_list>
//! <https://learn.microsoft.com/windows/win32/api/minidumpapiset/ns-minidumpapiset-minidump_thread_info>

ghost use Rattle.std.specs.Prelude.{◌≡◌, ◌+◌, ◌≤◌, length};
ghost use Rattle.std.proofs.Common.{arith};
ghost use Rattle.std.specs.Option.{option_map};
ghost use Rattle.pe_minidump.specs.Dumps.{dump_view};
ghost use Rattle.pe_minidump.specs.Records.{thread_info};
ghost use Rattle.pe_minidump.specs.Refusals.{DumpReturns};
ghost use Rattle.pe_minidump.specs.Streams.{thread_infos};
ghost use Rattle.pe_minidump.specs.Tables.{records};

use crate::dump::Dump;
use crate::error::Result;
use crate::list::headed_list;
use crate::stream_type::THREAD_INFO_LIST_STREAM;
use crate::table::{DumpRecord, Table};
use pe_core::{read_u32, read_u64};

/// More on a thread (`MINIDUMP_THREAD_INFO`), 64 bytes.
#[repr(C)]
#[derive(Clone, Copy, Debug, PartialEq)]
pub struct ThreadInfo {
    /// The ID of the thread.
    pub thread_id: u32,
    /// `MINIDUMP_THREAD_INFO_*`: 2 is the thread that wrote the dump.
    pub dump_flags: u32,
    /// An `HRESULT` of the writer.
    pub dump_error: u32,
    /// The status with which it ended, or `STILL_ACTIVE`, 259.
    pub exit_status: u32,
    /// When it was made, in 100 ns since 1601.
    pub create_time: u64,
    /// When it ended, likewise.
    pub exit_time: u64,
    /// How long it ran in the kernel, in 100 ns.
    pub kernel_time: u64,
    /// How long it ran outside of the kernel, in 100 ns.
    pub user_time: u64,
    /// The address of its function.
    pub start_address: u64,
    /// The processors on which it may run.
    pub affinity: u64,
}

impl DumpRecord for ThreadInfo {
    ghost SIZE = { 64 };

    ghost record_at = { thread_info };

    const SIZE: usize = 64;

    const LIST: &'static str = "DumpThreadInfos";

    #[tactic(auto, unfolding(crate::specs::Records::thread_info))]
    fn at(bytes: &[u8], offset: usize) -> ThreadInfo {
        ThreadInfo {
            thread_id: read_u32(bytes, offset),
            dump_flags: read_u32(bytes, offset + 4),
            dump_error: read_u32(bytes, offset + 8),
            exit_status: read_u32(bytes, offset + 12),
            create_time: read_u64(bytes, offset + 16),
            exit_time: read_u64(bytes, offset + 24),
            kernel_time: read_u64(bytes, offset + 32),
            user_time: read_u64(bytes, offset + 40),
            start_address: read_u64(bytes, offset + 48),
            affinity: read_u64(bytes, offset + 56),
        }
    }

    ghost is_small = { omega arith };
}

impl<'a> Dump<'a> {
    /// More on the threads (`ThreadInfoListStream`); `None` without such a stream. Errors, in order: `Location`; `Short` if
    /// the header is truncated; `EntrySize` if its entries have fewer than 64 bytes; `ListSize` if the entries do not all
    /// lie in the stream, or start in the header.
    pub fn thread_infos(&self) -> Result<Option<Table<'a, ThreadInfo>>>
        ensures { DumpReturns (option_map (λ t. records thread_info t.bytes.now t.stride t.count)) result
            (thread_infos (dump_view self.now)) }
    {
        match self.stream(THREAD_INFO_LIST_STREAM)? {
            Some(stream) => Ok(Some(headed_list(stream, 12)?)),
            None => Ok(None),
        }
    }
}
