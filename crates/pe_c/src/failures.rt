//! Calls that say why another call refuses, with the numbers of the refusal, over calls_failures.

ghost use Rattle.std.specs.Prelude.{Ok};
ghost use Rattle.calls_base.specs.HandsOut.{HandsOutIf};
ghost use Rattle.pe_c.specs.ItemFailures.{image_item_failure, item_failure};
ghost use Rattle.calls_failures.specs.UnwindFailures.{SaysWhyCode, SaysWhyRecord};
ghost use Rattle.calls_base.specs.Views.{map_of};
ghost use Rattle.calls_failures.specs.Arm64Failures.{SaysWhyArm64Code};

use calls_base::numbers::{FUNCTION_CYCLE, FUNCTION_LINK, Failure, UNMAPPED};
use calls_base::ranges::Range;
use calls_base::view::View;
use calls_directories::directories::delay_imports::DelayedFunctions;
use calls_directories::names::imports::{Imports, Libraries};
use calls_directories::resources::leaves::ResourceLeaves;
use calls_failures::debug::record_failure as debug_failure;
use calls_failures::directories::directory_failure;
use calls_failures::headers::{hand_out_failure, image_failure, rows_failure, te_failure};
use calls_failures::steps::arm64::record_failure;
use calls_failures::steps::bound_imports::bound_failure;
use calls_failures::steps::delay_imports::{delay_import_failure, delayed_function_failure};
use calls_failures::steps::resources::leaf_failure;
use calls_failures::steps::symbols::symbol_name_failure;
use calls_failures::steps::unwinding::code_failure;
use calls_failures::steps::{
    arm64, block_failure, certificate_failure, import_failure, library_failure, relocation_failure,
    unwinding,
};
use calls_unwind::arm64::codes::Arm64CodeWalk;
use calls_unwind::unwinding::CodeWalk;
use pe_records::ImageDebugDirectory;
use pe_unwind::Arm64RuntimeFunction;

/// A certificate, by `range`.
pub const FAILED_CERTIFICATE: u32 = 1;
/// A block of base relocations, by `range`.
pub const FAILED_RELOCATION_BLOCK: u32 = 2;
/// A relocation, by `range` and `number`.
pub const FAILED_RELOCATION: u32 = 3;
/// A DLL that the image is bound to, by `range` and `table`.
pub const FAILED_BOUND_IMPORT: u32 = 4;
/// The name of a symbol, by `table`, `strings` and `index`.
pub const FAILED_SYMBOL_NAME: u32 = 5;
/// A library, by `libraries`.
pub const FAILED_LIBRARY: u32 = 6;
/// An import, by `imports`.
pub const FAILED_IMPORT: u32 = 7;
/// A leaf of the resource tree, by `leaves`.
pub const FAILED_RESOURCE_LEAF: u32 = 8;
/// An unwind record on ARM64, by `function`.
pub const FAILED_ARM64_RECORD: u32 = 9;
/// A DLL that is loaded later, by `range`.
pub const FAILED_DELAY_IMPORT: u32 = 10;
/// A function of such a DLL, by `functions`.
pub const FAILED_DELAYED_FUNCTION: u32 = 11;
/// A directory, by its index as `number`.
pub const FAILED_DIRECTORY: u32 = 12;
/// The headers of an image in a mode, by `number`.
pub const FAILED_IMAGE: u32 = 13;
/// The header of a TE image.
pub const FAILED_TE: u32 = 14;
/// The record of an entry of the debug directory, by `entry`, a mode as `number`, and `record`.
pub const FAILED_DEBUG_RECORD: u32 = 15;
/// Section headers at `index`, so many as `number_of_sections`, where there is room for them.
pub const FAILED_SECTIONS: u32 = 16;

/// What is read of an item: a call reads the fields of its kind alone.
#[repr(C)]
#[derive(Clone, Copy)]
pub struct FailedItem {
    /// A walk that is a range.
    pub range: Range,
    /// The table of a walk over bound imports, or of symbols.
    pub table: Range,
    /// The strings of symbols.
    pub strings: Range,
    /// The index of a symbol, or the offset of section headers.
    pub index: u64,
    /// A walk over libraries.
    pub libraries: Libraries,
    /// A walk over imports.
    pub imports: Imports,
    /// A walk over the leaves of a resource tree.
    pub leaves: ResourceLeaves,
    /// A walk over the functions of a DLL that is loaded later.
    pub functions: DelayedFunctions,
    /// A function on ARM64.
    pub function: Arm64RuntimeFunction,
    /// The RVA of the page of a block, the index of a directory, or a mode.
    pub number: u32,
    /// As which record that of an entry is read, from 0: `key`, `pdb20`, `features`, `characteristics`, `repro`, `pogo`, `embedded`,
    /// `checksum`.
    pub record: u32,
    /// An entry of the debug directory.
    pub entry: ImageDebugDirectory,
    /// How many section headers there are.
    pub number_of_sections: u16,
    /// It is never read.
    pub spare: u16,
}

/// Returns why an item is refused that bytes alone have, by its kind: the result of the call that reads it, and the numbers of that
/// error. The item stays where it is. `NOTHING` where it is not refused, and of a kind that is none of these: a certificate, a block of
/// base relocations, a relocation, a DLL that the image is bound to, the name of a symbol, the headers of an image, the header
/// of a TE image, the record of an entry of the debug directory, whatever its type is, read as one of a kind, section headers.
///
/// The offset of `DIRECTORY_BOUND_IMPORT_NAME` counts from the start of `table`, that of `STRING_TABLE` from the start of `strings`.
#[unsafe(no_mangle)]
pub extern "C" fn pe_c_item_failure(
    bytes: &[u8],
    kind: u32,
    item: &FailedItem,
    out: &mut Failure,
) -> u32
    ensures { HandsOutIf result out.old out.new (Ok (item_failure kind bytes.now item.now)) }
{
    let range = &item.range;
    let found = match kind {
        FAILED_CERTIFICATE => certificate_failure(bytes, range),
        FAILED_RELOCATION_BLOCK => block_failure(bytes, range),
        FAILED_RELOCATION => relocation_failure(bytes, item.number, range),
        FAILED_BOUND_IMPORT => bound_failure(bytes, &item.table, range),
        FAILED_SYMBOL_NAME => symbol_name_failure(bytes, &item.table, &item.strings, item.index),
        FAILED_IMAGE => image_failure(bytes, item.number),
        FAILED_TE => te_failure(bytes),
        FAILED_SECTIONS => {
            let count = usize::from(item.number_of_sections);
            rows_failure(bytes, item.index as usize, count)
        }
        FAILED_DEBUG_RECORD => debug_failure(bytes, item.number, &item.entry, item.record),
        _ => None,
    };
    hand_out_failure(found, out)
}

/// The same of an item that RVAs lead to: a library, an import, a leaf of the resource tree, an unwind record on ARM64, a DLL that is
/// loaded later, a function of one, a directory by its index, `IMAGE_DIRECTORY_ENTRY_*` of winnt.h. A directory is refused by the call
/// that reads it, and none is that no call reads: those with the indices 7, 8, 12 and 15. The calls are `pe_c_export_tables`,
/// `pe_c_import_libraries`, `pe_c_resource_leaves`, `pe_c_function_table` or `pe_c_arm64_table`, `pe_c_next_certificate` of the first
/// certificate, `pe_c_relocation_blocks`, `pe_c_debug_entries`, `pe_c_tls`, `pe_c_load_config`, `pe_c_bound_imports`,
/// `pe_c_delay_imports` and `pe_c_clr_header`.
///
/// The RVA of `UNMAPPED` and of `IMPORT_NAME` is that of a library's name, or of the hint before an import's. The offset of `SHORT` of a
/// library is that of the record, or the one in the list of imports at which an entry is truncated. Offsets of `TREE_` errors count
/// from the first directory. On ARM64 the RVA of `UNMAPPED` is that of the exception directory or, where that is mapped, of the record.
#[unsafe(no_mangle)]
pub extern "C" fn pe_c_image_item_failure(
    view: &View,
    kind: u32,
    item: &FailedItem,
    out: &mut Failure,
) -> u32
    ensures { HandsOutIf result out.old out.new (Ok (image_item_failure kind view.now item.now)) }
{
    let found = match kind {
        FAILED_LIBRARY => library_failure(view, &item.libraries),
        FAILED_IMPORT => import_failure(view, &item.imports),
        FAILED_RESOURCE_LEAF => leaf_failure(view, &item.leaves),
        FAILED_ARM64_RECORD => record_failure(view, &item.function),
        FAILED_DELAY_IMPORT => delay_import_failure(view, &item.range),
        FAILED_DELAYED_FUNCTION => delayed_function_failure(view, &item.functions),
        FAILED_DIRECTORY => directory_failure(view, item.number),
        _ => None,
    };
    hand_out_failure(found, out)
}

/// Returns why `pe_c_unwind_record` refuses the unwind record of an unwind RVA: the same result, and the numbers of that error.
/// `NOTHING` where it does not refuse it. `table` is the function table.
///
/// The RVA of `FUNCTION_CYCLE` is `unwind`, whose links never end, that of `FUNCTION_LINK` the one at which they end, and that of
/// `UNMAPPED` is of the entry or of the record to which this one leads.
#[unsafe(no_mangle)]
pub extern "C" fn pe_c_unwind_record_failure(
    view: &View,
    table: &Range,
    unwind: u32,
    out: &mut Failure,
) -> u32
    ensures { SaysWhyRecord (map_of view.now) view.now.bytes.now table.now unwind result out.old out.new }
{
    hand_out_failure(unwinding::record_failure(view, table, unwind), out)
}

/// The same of the code that a walk is at, which `pe_c_next_code` refuses.
#[unsafe(no_mangle)]
pub extern "C" fn pe_c_code_failure(bytes: &[u8], walk: &CodeWalk, out: &mut Failure) -> u32
    ensures { SaysWhyCode bytes.now walk.now result out.old out.new }
{
    hand_out_failure(code_failure(bytes, walk), out)
}

/// Returns why `pe_c_next_arm64_code` refuses the code that a walk is at, which does not move: the same result, and the numbers of that
/// error. `NOTHING` where it does not refuse it. The offset of `ARM64_CUT` counts from the
/// start of the codes.
#[unsafe(no_mangle)]
pub extern "C" fn pe_c_arm64_code_failure(
    bytes: &[u8],
    walk: &Arm64CodeWalk,
    out: &mut Failure,
) -> u32
    ensures { SaysWhyArm64Code bytes.now walk.now result out.old out.new }
{
    hand_out_failure(arm64::code_failure(bytes, walk), out)
}
