//! Modules that were unloaded before the dump was written, stream 14: `MINIDUMP_UNLOADED_MODULE_LIST`, whose header says how
//! large its entries are. `MINIDUMP_UNLOADED_MODULE` has 24 bytes. An address in one says that code ran on after it was
//! gone.
//!
//! <https://learn.microsoft.com/windows/win32/api/minidumpapiset/ns-minidumpapiset-minidump_unloaded_module_list>
//! <https://learn.microsoft.com/windows/win32/api/minidumpapiset/ns-minidumpapiset-minidump_unloaded_module>

ghost use Rattle.std.specs.Prelude.{◌≡◌, ◌+◌, ◌≤◌, length};
ghost use Rattle.std.proofs.Common.{arith};
ghost use Rattle.std.specs.Option.{option_map};
ghost use Rattle.pe_minidump.specs.Dumps.{dump_view};
ghost use Rattle.pe_minidump.specs.Records.{unloaded_module};
ghost use Rattle.pe_minidump.specs.Refusals.{DumpReturns};
ghost use Rattle.pe_minidump.specs.Streams.{unloaded_modules};
ghost use Rattle.pe_minidump.specs.Tables.{records};

use crate::dump::Dump;
use crate::error::Result;
use crate::list::headed_list;
use crate::stream_type::UNLOADED_MODULE_LIST_STREAM;
use crate::table::{DumpRecord, Table};
use pe_core::{read_u32, read_u64};

/// A module that was unloaded (`MINIDUMP_UNLOADED_MODULE`), 24 bytes.
#[repr(C)]
#[derive(Clone, Copy, Debug, PartialEq)]
pub struct UnloadedModule {
    /// The address where it was loaded.
    pub base_of_image: u64,
    /// How many bytes it had there.
    pub size_of_image: u32,
    /// `CheckSum` of its optional header.
    pub check_sum: u32,
    /// `TimeDateStamp` of its COFF header.
    pub time_date_stamp: u32,
    /// The offset of its name in the file, a string.
    pub module_name_rva: u32,
}

impl DumpRecord for UnloadedModule {
    ghost SIZE = { 24 };

    ghost record_at = { unloaded_module };

    const SIZE: usize = 24;

    const LIST: &'static str = "DumpUnloadedModules";

    #[tactic(auto, unfolding(crate::specs::Records::unloaded_module))]
    fn at(bytes: &[u8], offset: usize) -> UnloadedModule {
        UnloadedModule {
            base_of_image: read_u64(bytes, offset),
            size_of_image: read_u32(bytes, offset + 8),
            check_sum: read_u32(bytes, offset + 12),
            time_date_stamp: read_u32(bytes, offset + 16),
            module_name_rva: read_u32(bytes, offset + 20),
        }
    }

    ghost is_small = { omega arith };
}

impl<'a> Dump<'a> {
    /// Unloaded modules (`UnloadedModuleListStream`); `None` without such a stream. Errors, in order: `Location`; `Short` if
    /// the header is truncated; `EntrySize` if its entries have fewer than 24 bytes; `ListSize` if the entries do not all
    /// lie in the stream, or start in the header.
    pub fn unloaded_modules(&self) -> Result<Option<Table<'a, UnloadedModule>>>
        ensures { DumpReturns (option_map (λ t. records unloaded_module t.bytes.now t.stride t.count)) result
            (unloaded_modules (dump_view self.now)) }
    {
        match self.stream(UNLOADED_MODULE_LIST_STREAM)? {
            Some(stream) => Ok(Some(headed_list(stream, 12)?)),
            None => Ok(None),
        }
    }
}
