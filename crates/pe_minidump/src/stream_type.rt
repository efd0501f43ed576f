//! The kinds of streams that a minidump has
//! ([`MINIDUMP_STREAM_TYPE`](https://learn.microsoft.com/windows/win32/api/minidumpapiset/ne-minidumpapiset-minidump_stream_type)).
//! Those without a reader of their own are bytes, which `Dump::stream` returns.

/// `ThreadListStream`: see `Dump::threads`.
pub const THREAD_LIST_STREAM: u32 = 3;

/// `ModuleListStream`: see `Dump::modules`.
pub const MODULE_LIST_STREAM: u32 = 4;

/// `MemoryListStream`: see `Dump::memory_list`.
pub const MEMORY_LIST_STREAM: u32 = 5;

/// `ExceptionStream`: see `Dump::exception`.
pub const EXCEPTION_STREAM: u32 = 6;

/// `SystemInfoStream`: see `Dump::system_info`.
pub const SYSTEM_INFO_STREAM: u32 = 7;

/// `Memory64ListStream`: see `Dump::memory64_list`.
pub const MEMORY64_LIST_STREAM: u32 = 9;

/// `HandleDataStream`: see `Dump::handles`.
pub const HANDLE_DATA_STREAM: u32 = 12;

/// `FunctionTableStream`: the function tables of code that was made as the process ran, as bytes.
pub const FUNCTION_TABLE_STREAM: u32 = 13;

/// `UnloadedModuleListStream`: see `Dump::unloaded_modules`.
pub const UNLOADED_MODULE_LIST_STREAM: u32 = 14;

/// `MiscInfoStream`: see `Dump::misc_info`.
pub const MISC_INFO_STREAM: u32 = 15;

/// `MemoryInfoListStream`: see `Dump::memory_regions`.
pub const MEMORY_INFO_LIST_STREAM: u32 = 16;

/// `ThreadInfoListStream`: see `Dump::thread_infos`.
pub const THREAD_INFO_LIST_STREAM: u32 = 17;

/// `ThreadNamesStream`: see `Dump::thread_names`.
pub const THREAD_NAMES_STREAM: u32 = 24;

/// `MD_BREAKPAD_INFO_STREAM` of Breakpad: which thread crashed, and which one asked for the dump, as bytes.
pub const BREAKPAD_INFO_STREAM: u32 = 0x4767_0001;

/// `kMinidumpStreamTypeCrashpadInfo` of Crashpad: the report's ID and annotations, as bytes.
pub const CRASHPAD_INFO_STREAM: u32 = 0x4350_0001;
