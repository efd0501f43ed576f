//! The lists of a minidump, a record a call, by its index in the stream: threads, modules and what else a process has.
//! Each call tests the list's number of records and its size; none depends on how many records there are.

ghost use Rattle.std.specs.Prelude.{◌≡◌, ◌≤◌};
ghost use Rattle.calls_stacks.specs.Dumps.{dump_answer};
ghost use Rattle.calls_stacks.specs.DumpRecords.{entry_in, module_reported, name_reported, region_reported, reported_in};
ghost use Rattle.pe_minidump.specs.Lists.{counted_list, headed_list};
ghost use Rattle.pe_minidump.specs.Records.{handle_descriptor, memory_region, module_entry, thread, thread_info, thread_name, unloaded_module};

use calls_base::ranges::Range;
use pe_minidump::{
    DumpRecord, FixedFileInfo, Handle, Location, MemoryRegion, Module, Result, ThreadInfo,
    ThreadName, UnloadedModule, counted_list, headed_list, headed_list_64, located,
};

/// The size of the header of the lists of unloaded modules and of thread information in bytes.
const SIZE_OF_HEADER: usize = 12;

/// The size of the header of the list of handles in bytes.
const SIZE_OF_HANDLE_HEADER: usize = 16;

/// A module (`MINIDUMP_MODULE`).
#[repr(C)]
#[derive(Clone, Copy)]
pub struct DumpModule {
    /// The address where it is loaded.
    pub base_of_image: u64,
    /// How many bytes it has there: `SizeOfImage` of its optional header.
    pub size_of_image: u32,
    /// `CheckSum` of its optional header.
    pub check_sum: u32,
    /// `TimeDateStamp` of its COFF header.
    pub time_date_stamp: u32,
    /// Where its path stands, a string.
    pub module_name_rva: u32,
    /// Its version.
    pub version_info: FixedFileInfo,
    /// Where its CodeView record stands; no bytes if the writer left it out.
    pub cv_record: Location,
    /// Where its `IMAGE_DEBUG_MISC` stands.
    pub misc_record: Location,
    /// 0.
    pub spare: u32,
}

/// The name of a thread (`MINIDUMP_THREAD_NAME`).
#[repr(C)]
#[derive(Clone, Copy)]
pub struct DumpThreadName {
    /// Where the name stands, a string.
    pub rva_of_thread_name: u64,
    /// The ID of the thread.
    pub thread_id: u32,
    /// 0.
    pub spare: u32,
}

/// A region of memory (`MINIDUMP_MEMORY_INFO`).
#[repr(C)]
#[derive(Clone, Copy)]
pub struct DumpMemoryRegion {
    /// The address of the first byte of the region.
    pub base_address: u64,
    /// The address of the allocation that it is part of.
    pub allocation_base: u64,
    /// How many bytes the region has.
    pub region_size: u64,
    /// How the allocation was protected at first, `PAGE_*`.
    pub allocation_protect: u32,
    /// `MEM_COMMIT`, `MEM_RESERVE` or `MEM_FREE`.
    pub state: u32,
    /// How it is protected, `PAGE_*`.
    pub protect: u32,
    /// `MEM_IMAGE`, `MEM_MAPPED` or `MEM_PRIVATE` (`Type`).
    pub memory_type: u32,
}

/// The record with an index of a list whose number of records comes first.
#[tactic(auto, using(crate::proofs::DumpEntries::listed))]
pub fn counted_at<E: DumpRecord>(bytes: &[u8], stream: &Range, index: u64) -> Result<Option<E>>
    ensures { dump_answer result
        ≡ entry_in (counted_list E.record_at E.SIZE) bytes.now stream.now index }
{
    let list = counted_list(located(bytes, stream.offset, stream.length)?)?;
    Ok(list.get(index as usize))
}

/// The record with an index of a list with a header of so many bytes, which says how large its records are.
#[tactic(auto, using(crate::proofs::DumpEntries::listed))]
fn headed_at<E: DumpRecord>(
    bytes: &[u8],
    stream: &Range,
    index: u64,
    head: usize,
) -> Result<Option<E>>
    requires { 12 ≤ head }
    ensures { dump_answer result
        ≡ entry_in (headed_list E.record_at E.SIZE head 4) bytes.now stream.now index }
{
    let list = headed_list(located(bytes, stream.offset, stream.length)?, head)?;
    Ok(list.get(index as usize))
}

pub fn unloaded_at(bytes: &[u8], stream: &Range, index: u64) -> Result<Option<UnloadedModule>>
    ensures { dump_answer result
        ≡ entry_in (headed_list unloaded_module 24 12 4) bytes.now stream.now index }
{
    headed_at(bytes, stream, index, SIZE_OF_HEADER)
}

pub fn thread_info_at(bytes: &[u8], stream: &Range, index: u64) -> Result<Option<ThreadInfo>>
    ensures { dump_answer result
        ≡ entry_in (headed_list thread_info 64 12 4) bytes.now stream.now index }
{
    headed_at(bytes, stream, index, SIZE_OF_HEADER)
}

pub fn handle_at(bytes: &[u8], stream: &Range, index: u64) -> Result<Option<Handle>>
    ensures { dump_answer result
        ≡ entry_in (headed_list handle_descriptor 32 16 4) bytes.now stream.now index }
{
    headed_at(bytes, stream, index, SIZE_OF_HANDLE_HEADER)
}

/// A module as callers get it.
pub fn module_reported(module: &Module) -> DumpModule
    ensures { result ≡ module_reported module.now }
{
    DumpModule {
        base_of_image: module.base_of_image,
        size_of_image: module.size_of_image,
        check_sum: module.check_sum,
        time_date_stamp: module.time_date_stamp,
        module_name_rva: module.module_name_rva,
        version_info: module.version_info,
        cv_record: module.cv_record,
        misc_record: module.misc_record,
        spare: 0,
    }
}

pub fn module_at(bytes: &[u8], stream: &Range, index: u64) -> Result<Option<DumpModule>>
    ensures { dump_answer result
        ≡ reported_in module_reported (counted_list module_entry 108) bytes.now stream.now index }
{
    match counted_at(bytes, stream, index)? {
        Some(module) => Ok(Some(module_reported(&module))),
        None => Ok(None),
    }
}

/// A name of a thread as callers get it.
pub fn name_reported(name: &ThreadName) -> DumpThreadName
    ensures { result ≡ name_reported name.now }
{
    DumpThreadName {
        rva_of_thread_name: name.rva_of_thread_name,
        thread_id: name.thread_id,
        spare: 0,
    }
}

pub fn name_at(bytes: &[u8], stream: &Range, index: u64) -> Result<Option<DumpThreadName>>
    ensures { dump_answer result
        ≡ reported_in name_reported (counted_list thread_name 12) bytes.now stream.now index }
{
    match counted_at(bytes, stream, index)? {
        Some(name) => Ok(Some(name_reported(&name))),
        None => Ok(None),
    }
}

/// A region of memory as callers get it.
pub fn region_reported(region: &MemoryRegion) -> DumpMemoryRegion
    ensures { result ≡ region_reported region.now }
{
    DumpMemoryRegion {
        base_address: region.base_address,
        allocation_base: region.allocation_base,
        region_size: region.region_size,
        allocation_protect: region.allocation_protect,
        state: region.state,
        protect: region.protect,
        memory_type: region.memory_type,
    }
}

#[tactic(auto, using(crate::proofs::DumpEntries::listed))]
pub fn region_at(bytes: &[u8], stream: &Range, index: u64) -> Result<Option<DumpMemoryRegion>>
    ensures { dump_answer result
        ≡ reported_in region_reported (headed_list memory_region 48 16 8) bytes.now stream.now index }
{
    let list = headed_list_64(located(bytes, stream.offset, stream.length)?)?;
    match list.get(index as usize) {
        Some(region) => Ok(Some(region_reported(&region))),
        None => Ok(None),
    }
}
