//! A record of a minidump by the kind of its stream: one record has a field for each kind, so that one call reads them all.

ghost use Rattle.std.specs.Prelude.{◌≡◌};
ghost use Rattle.calls_stacks.specs.DumpRecords.{alone, any_record};
ghost use Rattle.calls_stacks.specs.Dumps.{DumpHandsOutIf, dump_answer};

use crate::dump::lists::{
    DumpMemoryRegion, DumpModule, DumpThreadName, counted_at, handle_at, module_at, name_at,
    region_at, thread_info_at, unloaded_at,
};
use crate::dump::memory::{DumpPiece, Memory64Walk, memory64_at, piece_at};
use crate::dump::records::{DumpProcess, DumpSystem, exception_at, misc_at, system_at};
use crate::dump::{dump_entry_at, hand_out_dump_if};
use calls_base::ranges::Range;
use calls_base::results::NOTHING;
use pe_minidump::{
    DirectoryEntry, EXCEPTION_STREAM, Exception, HANDLE_DATA_STREAM, Handle,
    MEMORY_INFO_LIST_STREAM, MEMORY_LIST_STREAM, MEMORY64_LIST_STREAM, MISC_INFO_STREAM,
    MODULE_LIST_STREAM, Result, SYSTEM_INFO_STREAM, THREAD_INFO_LIST_STREAM, THREAD_LIST_STREAM,
    THREAD_NAMES_STREAM, Thread, ThreadInfo, UNLOADED_MODULE_LIST_STREAM, UnloadedModule,
};

/// The kind of the entries of the directory, which no stream has.
pub const DUMP_ENTRIES: u32 = 0;

/// A record of any kind: a call writes the field of its kind alone.
#[repr(C)]
#[derive(Clone, Copy)]
pub struct AnyRecord {
    /// A thread.
    pub thread: Thread,
    /// A module.
    pub loaded: DumpModule,
    /// A piece of memory.
    pub memory: DumpPiece,
    /// The exception.
    pub exception: Exception,
    /// A walk over the pieces of memory of a full dump.
    pub memory64: Memory64Walk,
    /// A handle.
    pub handle: Handle,
    /// A module that was unloaded.
    pub unloaded: UnloadedModule,
    /// A region of memory.
    pub region: DumpMemoryRegion,
    /// More on a thread.
    pub thread_info: ThreadInfo,
    /// The name of a thread.
    pub thread_name: DumpThreadName,
    /// The system.
    pub system: DumpSystem,
    /// The process.
    pub process: DumpProcess,
    /// An entry of the directory.
    pub entry: DirectoryEntry,
    /// It is never written.
    pub spare: u32,
}

/// What a stream says in one record, by its index, which is 0.
fn alone<T: Copy>(given: Result<T>, index: u64) -> Result<Option<T>>
    ensures { dump_answer result ≡ alone (dump_answer given) index }
{
    let found = given?;
    Ok(if index == 0 { Some(found) } else { None })
}

/// Reads the record with an index in the stream of a kind into the field of the kind.
pub fn hand_out_record(
    bytes: &[u8],
    stream: &Range,
    kind: u32,
    index: u64,
    out: &mut AnyRecord,
) -> u32
    ensures { DumpHandsOutIf result out.old out.new
        (any_record kind bytes.now stream.now index out.old) }
{
    let (b, r, i) = (bytes, stream, index);
    match kind {
        DUMP_ENTRIES => hand_out_dump_if(dump_entry_at(b, r, i), &mut out.entry),
        THREAD_LIST_STREAM => hand_out_dump_if(counted_at(b, r, i), &mut out.thread),
        MODULE_LIST_STREAM => hand_out_dump_if(module_at(b, r, i), &mut out.loaded),
        MEMORY_LIST_STREAM => hand_out_dump_if(piece_at(b, r, i), &mut out.memory),
        EXCEPTION_STREAM => hand_out_dump_if(alone(exception_at(b, r), i), &mut out.exception),
        SYSTEM_INFO_STREAM => hand_out_dump_if(alone(system_at(b, r), i), &mut out.system),
        MEMORY64_LIST_STREAM => hand_out_dump_if(alone(memory64_at(b, r), i), &mut out.memory64),
        HANDLE_DATA_STREAM => hand_out_dump_if(handle_at(b, r, i), &mut out.handle),
        UNLOADED_MODULE_LIST_STREAM => hand_out_dump_if(unloaded_at(b, r, i), &mut out.unloaded),
        MISC_INFO_STREAM => hand_out_dump_if(alone(misc_at(b, r), i), &mut out.process),
        MEMORY_INFO_LIST_STREAM => hand_out_dump_if(region_at(b, r, i), &mut out.region),
        THREAD_INFO_LIST_STREAM => hand_out_dump_if(thread_info_at(b, r, i), &mut out.thread_info),
        THREAD_NAMES_STREAM => hand_out_dump_if(name_at(b, r, i), &mut out.thread_name),
        _ => NOTHING,
    }
}
