//! The handles of the process, stream 12: `MINIDUMP_HANDLE_DATA_STREAM`, whose header says how large its entries are.
//! `MINIDUMP_HANDLE_DESCRIPTOR` has 32 bytes.
//!
//! <https://learn.microsoft.com/windows/win32/api/minidumpapiset/ns-minidumpapiset-minidump_handle_data_stream>
//! <https://learn.microsoft.com/windows/win32/api/minidumpapiset/ns-minidumpapiset-minidump_handle_descriptor>

ghost use Rattle.std.specs.Prelude.{◌≡◌, ◌+◌, ◌≤◌, length};
ghost use Rattle.std.proofs.Common.{arith};
ghost use Rattle.std.specs.Option.{option_map};
ghost use Rattle.pe_minidump.specs.Dumps.{dump_view};
ghost use Rattle.pe_minidump.specs.Records.{handle_descriptor};
ghost use Rattle.pe_minidump.specs.Refusals.{DumpReturns};
ghost use Rattle.pe_minidump.specs.Streams.{handles};
ghost use Rattle.pe_minidump.specs.Tables.{records};

use crate::dump::Dump;
use crate::error::Result;
use crate::list::headed_list;
use crate::stream_type::HANDLE_DATA_STREAM;
use crate::table::{DumpRecord, Table};
use pe_core::{read_u32, read_u64};

/// A handle (`MINIDUMP_HANDLE_DESCRIPTOR`), 32 bytes. Those of `MINIDUMP_HANDLE_DESCRIPTOR_2` have 8 more, which are not read.
#[repr(C)]
#[derive(Clone, Copy, Debug, PartialEq)]
pub struct Handle {
    /// The value of the handle.
    pub handle: u64,
    /// The offset of the name of its type in the file, a string; 0 if there is none.
    pub type_name_rva: u32,
    /// The offset of the name of its object in the file, a string; 0 if there is none.
    pub object_name_rva: u32,
    /// The attributes of the handle.
    pub attributes: u32,
    /// What its holder may do.
    pub granted_access: u32,
    /// How many handles its object has.
    pub handle_count: u32,
    /// How many references its object has.
    pub pointer_count: u32,
}

impl DumpRecord for Handle {
    ghost SIZE = { 32 };

    ghost record_at = { handle_descriptor };

    const SIZE: usize = 32;

    const LIST: &'static str = "DumpHandles";

    #[tactic(auto, unfolding(crate::specs::Records::handle_descriptor))]
    fn at(bytes: &[u8], offset: usize) -> Handle {
        Handle {
            handle: read_u64(bytes, offset),
            type_name_rva: read_u32(bytes, offset + 8),
            object_name_rva: read_u32(bytes, offset + 12),
            attributes: read_u32(bytes, offset + 16),
            granted_access: read_u32(bytes, offset + 20),
            handle_count: read_u32(bytes, offset + 24),
            pointer_count: read_u32(bytes, offset + 28),
        }
    }

    ghost is_small = { omega arith };
}

impl<'a> Dump<'a> {
    /// The handles (`HandleDataStream`); `None` without such a stream. Errors, in order: `Location`; `Short` if the header
    /// is truncated; `EntrySize` if its entries have fewer than 32 bytes; `ListSize` if the entries do not all lie in the
    /// stream, or start in the header.
    pub fn handles(&self) -> Result<Option<Table<'a, Handle>>>
        ensures { DumpReturns (option_map (λ t. records handle_descriptor t.bytes.now t.stride t.count)) result
            (handles (dump_view self.now)) }
    {
        match self.stream(HANDLE_DATA_STREAM)? {
            Some(stream) => Ok(Some(headed_list(stream, 16)?)),
            None => Ok(None),
        }
    }
}
