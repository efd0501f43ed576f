//! The function table of an ARM64 image (`.pdata`): entries of 8 bytes, and the unwind data that is packed into one.
//! https://learn.microsoft.com/cpp/build/arm64-exception-handling#pdata-records

ghost use Rattle.std.specs.Prelude.{◌≡◌};
ghost use Rattle.pe_core.specs.Refusals.{answer_of};
ghost use Rattle.pe_unwind.specs.Arm64Lookup.{length_by};
ghost use Rattle.calls_unwind.specs.Arm64.{LocatesArm64In, arm64_function_in};
ghost use Rattle.calls_base.specs.Ranges.{bytes_at};
ghost use Rattle.calls_unwind.specs.Unwinding.{exception_table_at};
ghost use Rattle.calls_base.specs.Views.{directory_sections, map_of};

use calls_base::image::{EXCEPTION_TABLE, directory, is_absent};
use calls_base::ranges::{Range, range_of, slice_of};
use calls_base::results::options;
use calls_base::view::{View, sections_of};
use pe_core::{COFF_MACHINE_ARM64, CountedTable, Result};
use pe_unwind::{Arm64RuntimeFunction, ExceptionData, search_arm64};

/// Packed unwind data, as `pe_c_arm64_packed_fields` reads it from an entry of the function table.
#[repr(C)]
#[derive(Clone, Copy)]
pub struct Arm64Packed {
    /// 0 where the unwind data is the RVA of a record, and the other fields mean nothing; 1 for a function, 2 for a
    /// fragment of one; 3 is reserved.
    pub flag: u32,
    /// In bytes.
    pub function_length: u32,
    /// Bytes of stack that the function allocates.
    pub frame_size: u32,
    /// RegF: 0, or the number of saved registers from d8 on, less 1.
    pub reg_f: u32,
    /// RegI: the number of saved registers from x19 on.
    pub reg_i: u32,
    /// H: 1 where x0 to x7 are stored at the start of the function, else 0.
    pub h: u32,
    /// CR: 0 where x29 and lr are not saved, 1 where lr is, 2 and 3 where both are; with 2 lr is signed.
    pub cr: u32,
    /// 0 where `flag` is 0, else 1.
    pub is_packed: u32,
}

/// The range of the function table, if the image is for ARM64 and has one.
#[tactic(auto, unfolding(crate::specs::Unwinding::exception_table_at))]
pub fn table_of(view: &View) -> Result<Option<Range>>
    ensures { answer_of result
        ≡ exception_table_at COFF_MACHINE_ARM64 8 view.now.bytes.now view.now.image.now
        (directory_sections view.now 3) view.now.image.now.mode }
{
    let directory = directory(view.image, EXCEPTION_TABLE);
    if view.image.machine != COFF_MACHINE_ARM64 || is_absent(directory) {
        return Ok(None);
    }
    let alignment = view.image.file_alignment;
    let opts = options(view.image.mode);
    let exceptions = ExceptionData::parse_arm64_with_opts(
        view.bytes,
        directory,
        sections_of(view, directory.virtual_address),
        alignment,
        &opts,
    )?;
    Ok(Some(range_of(exceptions.table_range())))
}

/// The function of a table that covers an RVA.
pub fn find(view: &View, table: &Range, rva: u32) -> Result<Option<Arm64RuntimeFunction>>
    ensures { LocatesArm64In (length_by (map_of view.now) view.now.bytes.now)
        (bytes_at view.now.bytes.now table.now) rva (answer_of result) }
{
    let mut counted = CountedTable::new(slice_of(view.bytes, table)?);
    search_arm64(&mut counted, rva, view.bytes, view)
}

/// The function of a table with an index.
pub fn function_in(bytes: &[u8], table: &Range, index: u64) -> Result<Arm64RuntimeFunction>
    ensures { answer_of result ≡ arm64_function_in bytes.now table.now index }
{
    let entries = slice_of(bytes, table)?;
    Arm64RuntimeFunction::of_table(entries, index as usize)
}
