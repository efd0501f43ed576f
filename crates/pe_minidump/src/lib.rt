//! Minidumps: the files that Windows, Breakpad and Crashpad write of a process that crashed
//! ([layout](https://learn.microsoft.com/windows/win32/api/minidumpapiset/)). A header leads to a directory, and the directory
//! to streams, one of each kind: threads, modules, pieces of memory, the exception, the system.
//!
//! A caller takes a `Dump` of the bytes of a file and asks it for streams. Each is read alone: one that is damaged is refused,
//! and leaves all others as they are. No call copies the bytes of a file, and three alone allocate: `AddressIndex::new`,
//! `module_ranges` and `Dump::memory_ranges`.
//!
//! Every call is proved to return what its definition in `specs/` says, for every byte string. Two ask something of their
//! caller: `DumpRecord::at` that the record lies in the bytes, and `headed_list` that the header has its three numbers.
#![tactic(auto)]

mod address_index;
mod context_arm64;
mod context_bytes;
mod context_x64;
mod dump;
mod error;
mod exception;
mod handle;
pub mod laws;
mod list;
mod location;
mod memory;
mod memory64;
mod memory_region;
mod module;
mod stream_type;
mod system;
mod table;
mod text;
mod thread;
mod thread_info;
mod thread_name;
mod unloaded_module;

pub use address_index::{AddressIndex, AddressRange};
pub use context_arm64::ContextArm64;
pub use context_x64::ContextX64;
pub use dump::{
    DirectoryEntry, Dump, DumpHeader, MINIDUMP_SIGNATURE, MINIDUMP_VERSION, first_entry,
};
pub use error::{DumpError, Result};
pub use exception::{Exception, exception_of};
pub use handle::Handle;
pub use list::{counted_list, headed_list, headed_list_64};
pub use location::{Location, located};
pub use memory::{MemoryDescriptor, MemoryPiece, MemoryRange, piece};
pub use memory_region::MemoryRegion;
pub use memory64::{Memory64List, Memory64Pieces};
pub use module::{FixedFileInfo, Module, module_ranges};
pub use stream_type::{
    BREAKPAD_INFO_STREAM, CRASHPAD_INFO_STREAM, EXCEPTION_STREAM, FUNCTION_TABLE_STREAM,
    HANDLE_DATA_STREAM, MEMORY_INFO_LIST_STREAM, MEMORY_LIST_STREAM, MEMORY64_LIST_STREAM,
    MISC_INFO_STREAM, MODULE_LIST_STREAM, SYSTEM_INFO_STREAM, THREAD_INFO_LIST_STREAM,
    THREAD_LIST_STREAM, THREAD_NAMES_STREAM, UNLOADED_MODULE_LIST_STREAM,
};
pub use system::{MiscInfo, ProcessTimes, ProcessorPower, SystemInfo, misc_of, system_of};
pub use table::{DumpRecord, Records, Table};
pub use text::text_at;
pub use thread::Thread;
pub use thread_info::ThreadInfo;
pub use thread_name::ThreadName;
pub use unloaded_module::UnloadedModule;
