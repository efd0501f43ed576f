//! The modules of a process, stream 4: `MINIDUMP_MODULE_LIST`, entries of 108 bytes (`MINIDUMP_MODULE`). They stand in no
//! order, the program mostly first. A debugger finds the image of a module by its time stamp and its size, and the PDB by
//! its CodeView record, which `DebugData` of pe_records reads.
//!
//! <https://learn.microsoft.com/windows/win32/api/minidumpapiset/ns-minidumpapiset-minidump_module_list>
//! <https://learn.microsoft.com/windows/win32/api/minidumpapiset/ns-minidumpapiset-minidump_module>

ghost use Rattle.std.specs.Prelude.{◌≡◌, ◌+◌, ◌*◌, ◌<◌, ◌≤◌, length, IfErr, IfOk};
ghost use Rattle.pe_core.specs.Rows.{each};
ghost use Rattle.pe_minidump.specs.Ranges.{module_range};
ghost use Rattle.std.proofs.Common.{arith};
ghost use Rattle.std.specs.Option.{option_map};
ghost use Rattle.pe_minidump.specs.Dumps.{dump_view};
ghost use Rattle.pe_minidump.specs.Records.{fixed_file_info, module_entry};
ghost use Rattle.pe_minidump.specs.Refusals.{DumpReturns};
ghost use Rattle.pe_minidump.specs.Streams.{modules};
ghost use Rattle.pe_minidump.specs.Tables.{records};

use crate::address_index::AddressRange;
use crate::dump::Dump;
use crate::error::Result;
use crate::list::counted_list;
use crate::location::Location;
use crate::stream_type::MODULE_LIST_STREAM;
use crate::table::{DumpRecord, Table};
use pe_core::{read_u32, read_u64};
use std::alloc::{AllocError, Allocator};

/// The version of a module (`VS_FIXEDFILEINFO`), 52 bytes.
#[repr(C)]
#[derive(Clone, Copy, Debug, PartialEq)]
pub struct FixedFileInfo {
    /// `VS_FFI_SIGNATURE`, FEEF04BDh; 0 if there is no version.
    pub signature: u32,
    /// The version of this structure.
    pub struc_version: u32,
    /// The version of the file: major part in the upper 16 bits, minor part in the lower.
    pub file_version_ms: u32,
    /// The same: build in the upper 16 bits, revision in the lower.
    pub file_version_ls: u32,
    /// The version of the product: major and minor part.
    pub product_version_ms: u32,
    /// The same: build and revision.
    pub product_version_ls: u32,
    /// Which bits of `file_flags` are valid.
    pub file_flags_mask: u32,
    /// `VS_FF_*`.
    pub file_flags: u32,
    /// `VOS_*`.
    pub file_os: u32,
    /// `VFT_*`.
    pub file_type: u32,
    /// `VFT2_*`.
    pub file_subtype: u32,
    /// The date of the file, upper half.
    pub file_date_ms: u32,
    /// The same, lower half.
    pub file_date_ls: u32,
}

/// The version at an offset in bytes that are known to have one.
#[tactic(auto, unfolding(crate::specs::Records::fixed_file_info))]
fn fixed_file_info_at(bytes: &[u8], offset: usize) -> FixedFileInfo
    requires { offset + 52 ≤ length bytes.now }
    ensures { result ≡ fixed_file_info bytes.now offset }
{
    FixedFileInfo {
        signature: read_u32(bytes, offset),
        struc_version: read_u32(bytes, offset + 4),
        file_version_ms: read_u32(bytes, offset + 8),
        file_version_ls: read_u32(bytes, offset + 12),
        product_version_ms: read_u32(bytes, offset + 16),
        product_version_ls: read_u32(bytes, offset + 20),
        file_flags_mask: read_u32(bytes, offset + 24),
        file_flags: read_u32(bytes, offset + 28),
        file_os: read_u32(bytes, offset + 32),
        file_type: read_u32(bytes, offset + 36),
        file_subtype: read_u32(bytes, offset + 40),
        file_date_ms: read_u32(bytes, offset + 44),
        file_date_ls: read_u32(bytes, offset + 48),
    }
}

/// A module (`MINIDUMP_MODULE`), 108 bytes.
#[repr(C)]
#[derive(Clone, Copy)]
pub struct Module {
    /// The address where it is loaded.
    pub base_of_image: u64,
    /// How many bytes it has there: `SizeOfImage` of its optional header.
    pub size_of_image: u32,
    /// `CheckSum` of its optional header.
    pub check_sum: u32,
    /// `TimeDateStamp` of its COFF header.
    pub time_date_stamp: u32,
    /// The offset of its path in the file, a string.
    pub module_name_rva: u32,
    /// Its version.
    pub version_info: FixedFileInfo,
    /// Where its CodeView record stands, which names its PDB; no bytes if the writer left it out.
    pub cv_record: Location,
    /// Where its `IMAGE_DEBUG_MISC` stands.
    pub misc_record: Location,
}

impl DumpRecord for Module {
    ghost SIZE = { 108 };

    ghost record_at = { module_entry };

    const SIZE: usize = 108;

    const LIST: &'static str = "DumpModules";

    #[tactic(auto, unfolding(crate::specs::Records::module_entry))]
    fn at(bytes: &[u8], offset: usize) -> Module {
        Module {
            base_of_image: read_u64(bytes, offset),
            size_of_image: read_u32(bytes, offset + 8),
            check_sum: read_u32(bytes, offset + 12),
            time_date_stamp: read_u32(bytes, offset + 16),
            module_name_rva: read_u32(bytes, offset + 20),
            version_info: fixed_file_info_at(bytes, offset + 24),
            cv_record: Location::at(bytes, offset + 76),
            misc_record: Location::at(bytes, offset + 84),
        }
    }

    ghost is_small = { omega arith };
}

impl<'a> Dump<'a> {
    /// The modules (`ModuleListStream`); `None` without such a stream. Errors, in order: `Location`; `Short` if the number
    /// of entries is truncated; `ListSize` if the
    /// stream has another size than the number and so many entries, with 4 bytes between them or none.
    pub fn modules(&self) -> Result<Option<Table<'a, Module>>>
        ensures { DumpReturns (option_map (λ t. records module_entry t.bytes.now t.stride t.count)) result
            (modules (dump_view self.now)) }
    {
        match self.stream(MODULE_LIST_STREAM)? {
            Some(stream) => Ok(Some(counted_list(stream)?)),
            None => Ok(None),
        }
    }
}

/// The addresses of the modules of a list, in its order, of which an `AddressIndex` is made. Error: memory runs out, which it
/// does not where the list is empty.
#[tactic(auto, unfolding(pe_core::specs::Rows::each))]
pub fn module_ranges<A: Allocator>(
    alloc: A,
    list: &Table<'_, Module>,
) -> std::result::Result<Vec<AddressRange, A>, AllocError>
    ensures made { IfOk result (λ v. v.items ≡ each
        (λ k. module_range (module_entry list.now.bytes.now (list.now.stride * k))) list.now.count) }
    ensures refused { IfErr result (λ e. 0 < list.now.count) }
{
    let mut ranges = Vec::new(alloc);
    for index in 0..list.len() {
        let module = list.known(index);
        ranges.push(AddressRange {
            start: module.base_of_image,
            size: u64::from(module.size_of_image),
        })?;
    }
    Ok(ranges)
}
