//! The names of threads, stream 24: `MINIDUMP_THREAD_NAME_LIST`, entries of 12 bytes (`MINIDUMP_THREAD_NAME`).
//!
//! <https://learn.microsoft.com/windows/win32/api/minidumpapiset/ns-minidumpapiset-minidump_thread_name_list>
//! <https://learn.microsoft.com/windows/win32/api/minidumpapiset/ns-minidumpapiset-minidump_thread_name>

ghost use Rattle.std.specs.Prelude.{◌≡◌, ◌+◌, ◌≤◌, length};
ghost use Rattle.std.proofs.Common.{arith};
ghost use Rattle.std.specs.Option.{option_map};
ghost use Rattle.pe_minidump.specs.Dumps.{dump_view};
ghost use Rattle.pe_minidump.specs.Records.{thread_name};
ghost use Rattle.pe_minidump.specs.Refusals.{DumpReturns};
ghost use Rattle.pe_minidump.specs.Streams.{thread_names};
ghost use Rattle.pe_minidump.specs.Tables.{records};

use crate::dump::Dump;
use crate::error::Result;
use crate::list::counted_list;
use crate::stream_type::THREAD_NAMES_STREAM;
use crate::table::{DumpRecord, Table};
use pe_core::{read_u32, read_u64};

/// The name of a thread (`MINIDUMP_THREAD_NAME`), 12 bytes.
#[repr(C)]
#[derive(Clone, Copy)]
pub struct ThreadName {
    /// The ID of the thread.
    pub thread_id: u32,
    /// The offset of its name in the file, a string.
    pub rva_of_thread_name: u64,
}

impl DumpRecord for ThreadName {
    ghost SIZE = { 12 };

    ghost record_at = { thread_name };

    const SIZE: usize = 12;

    const LIST: &'static str = "DumpThreadNames";

    #[tactic(auto, unfolding(crate::specs::Records::thread_name))]
    fn at(bytes: &[u8], offset: usize) -> ThreadName {
        ThreadName {
            thread_id: read_u32(bytes, offset),
            rva_of_thread_name: read_u64(bytes, offset + 4),
        }
    }

    ghost is_small = { omega arith };
}

impl<'a> Dump<'a> {
    /// The names of threads (`ThreadNamesStream`); `None` without such a stream. Errors, in order: `Location`; `Short` if
    /// the number of entries is truncated; `ListSize` if the
    /// stream has another size than the number and so many entries, with 4 bytes between them or none.
    pub fn thread_names(&self) -> Result<Option<Table<'a, ThreadName>>>
        ensures { DumpReturns (option_map (λ t. records thread_name t.bytes.now t.stride t.count)) result
            (thread_names (dump_view self.now)) }
    {
        match self.stream(THREAD_NAMES_STREAM)? {
            Some(stream) => Ok(Some(counted_list(stream)?)),
            None => Ok(None),
        }
    }
}
