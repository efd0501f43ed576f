//! Calls on the other directories of an image: relocations, TLS, the load configuration and others, over calls_directories.

ghost use Rattle.std.specs.Prelude.{◌≡◌};
ghost use Rattle.calls_base.specs.Directories.{callbacks_at, first_va_in, left_after, step_of, table_at, tls_at};
ghost use Rattle.calls_base.specs.DirectoryResults.{DirectoryHandsOut, directory_number};
ghost use Rattle.calls_base.specs.HandsOut.{HandsOut, HandsOutIf};
ghost use Rattle.calls_base.specs.Views.{directory_sections, map_of, may_map};
ghost use Rattle.calls_base.specs.Walks.{walk_of};
ghost use Rattle.calls_directories.specs.BoundImports.{bound_imports_at};
ghost use Rattle.calls_directories.specs.Certificates.{certificate_step};
ghost use Rattle.calls_directories.specs.Clr.{clr_header_at, clr_metadata_at, first_stream_in, stream_reported, streams_after};
ghost use Rattle.calls_directories.specs.DirectoryTables.{export_directory_at, next_item_of, resource_directory_at, root_at};
ghost use Rattle.calls_directories.specs.GuardTables.{guard_table_at, StepsGuardEntries};
ghost use Rattle.calls_directories.specs.LoadConfigs.{load_config_at, numbered_field_at};
ghost use Rattle.calls_directories.specs.DirectoryRuns.{StepsBoundImports, StepsForwarders, StepsBlocks, StepsRelocations};
ghost use Rattle.calls_base.specs.Lists.{HandsOutList, Numbered};
ghost use Rattle.calls_directories.specs.KeptWalks.{StepsKeptDelayLibraries, StepsKeptFunctions};
ghost use Rattle.calls_directories.specs.LibraryFunctions.{StepsLibraryFunctions};

use calls_base::directories::table_at;
use calls_base::image::directory;
use calls_base::lists::{Steps, hand_out_list};
use calls_base::named_view::NamedView;
use calls_base::near_map::NO_WINDOW;
use calls_base::ranges::Range;
use calls_base::results::{hand_out, hand_out_found, hand_out_some};
use calls_base::text_runs::{Run, first_runs};
use calls_base::view::View;
use calls_directories::directories::all_delay_imports::{
    LibraryFunction, LibraryFunctions, list_library_functions, put_names,
};
use calls_directories::directories::base_relocations::{
    Blocks, Relocation, RelocationBlock, Relocations,
};
use calls_directories::directories::bound_imports::{
    BoundForwarder, BoundImport, BoundNames, bound_imports_at, put_bound_forwarders,
    put_bound_names,
};
use calls_directories::directories::certificates::{Certificate, step};
use calls_directories::directories::clr::{
    Metadata, MetadataStream, MetadataStreams, clr_header_at, clr_metadata_at, next_stream,
    stream_reported,
};
use calls_directories::directories::delay_imports::{
    DelayLibrary, DelayWalk, DelayedFunction, DelayedFunctionWalk, list_functions, list_libraries,
    put_dll_names, put_function_names,
};
use calls_directories::directories::guard_tables::{
    Entries, GuardEntries, GuardEntry, guard_table_at,
};
use calls_directories::directories::load_config::{LoadConfig, load_config_at, numbered_field_at};
use calls_directories::directories::tables::{
    ExportFields, ResourceDirectory, ResourceItem, export_directory_at, next_resource_item,
    resource_directory_at, resource_root,
};
use calls_directories::directories::tls::{callbacks_at, next_callback, tls_at};
use pe_core::{RvaMap, TableEntry};
use pe_directories::{ClrHeader, TlsDirectory};

// ---- tables

/// Returns the bytes of a directory by its index, `IMAGE_DIRECTORY_ENTRY_*` of winnt.h, as RVAs lead to it: of base relocations and of
/// delay imports a walk through the blocks and the entries. `NOTHING` where it is absent. Strict and permissive mode make no
/// difference.
///
/// Errors: `UNMAPPED`, `SHORT`.
#[unsafe(no_mangle)]
pub extern "C" fn pe_c_directory_table(view: &View, index: u32, out: &mut Range) -> u32
    ensures { DirectoryHandsOut result out.old out.new
        (table_at index view.now.bytes.now view.now.image.now (directory_sections view.now index)) }
{
    hand_out_found(table_at(view, index as usize), out)
}

// ---- bound imports

/// Returns the bytes of the directory of bound imports, at first a walk through them: `NOTHING` where it is absent. It stands
/// in the headers, so its RVA is a file offset. Strict and permissive mode make no difference.
///
/// Error: `SHORT`.
#[unsafe(no_mangle)]
pub extern "C" fn pe_c_bound_imports(view: &View, out: &mut Range) -> u32
    ensures { DirectoryHandsOut result out.old out.new (bound_imports_at view.now.bytes.now
        view.now.image.now) }
{
    hand_out_found(bound_imports_at(view), out)
}

// ---- certificates

/// Reads the next certificate of a table: `NOTHING` at the end of the walk. The walk starts as the range of the table
/// and moves to the certificate's end, rounded up to a multiple of 8; it is over where that is not before its own end.
/// The last body may end past the walk's end.
///
/// Errors: `CERTIFICATE_TABLE` where the walk is not inside the bytes; `SHORT` of the header; `CERTIFICATE_SIZE`,
/// `CERTIFICATE_REVISION`, `CERTIFICATE_TYPE`. After an error the walk is over.
#[unsafe(no_mangle)]
pub extern "C" fn pe_c_next_certificate(
    bytes: &[u8],
    walk: &mut Range,
    out: &mut Certificate,
) -> u32
    ensures returned { HandsOutIf result out.old out.new (certificate_step bytes.now walk.old).0 }
    ensures walk { walk.new ≡ (certificate_step bytes.now walk.old).1 }
{
    let (reported, after) = step(bytes, *walk);
    *walk = after;
    hand_out_some(reported, out)
}

// ---- clr

/// Returns the CLR header of an image: `NOTHING` where it is absent. Strict and permissive mode make no difference.
///
/// Errors: `UNMAPPED`, `SHORT`; `DIRECTORY_CLR_HEADER_SIZE`.
#[unsafe(no_mangle)]
pub extern "C" fn pe_c_clr_header(view: &View, out: &mut ClrHeader) -> u32
    ensures { DirectoryHandsOut result out.old out.new
        (clr_header_at view.now.bytes.now view.now.image.now (directory_sections view.now 14)) }
{
    hand_out_found(clr_header_at(view), out)
}

/// Returns the root of the metadata to which a CLR header leads, with a walk over the streams. Strict and permissive mode make
/// no difference.
///
/// Errors: `UNMAPPED`; `SHORT` where the metadata are truncated, or do not hold the first 16 bytes of the root; `BAD_MAGIC`;
/// `SHORT` where they do not hold the root.
#[unsafe(no_mangle)]
pub extern "C" fn pe_c_clr_metadata(view: &View, header: &ClrHeader, out: &mut Metadata) -> u32
    ensures { DirectoryHandsOut result out.old out.new
        (clr_metadata_at view.now.bytes.now view.now.image.now
        (may_map view.now header.now.metadata.virtual_address) header.now) }
{
    hand_out_found(clr_metadata_at(view, header), out)
}

/// Steps through the streams of CLR metadata: returns the next one, and moves `walk` past it. `NOTHING` after the last.
///
/// Errors, after which the walk is over: `SHORT` where a range of `walk` is not inside the bytes, or the header of the
/// stream is truncated; `DIRECTORY_STREAM_NAME`, then `SHORT` where its name or the zeros after it are.
#[unsafe(no_mangle)]
pub extern "C" fn pe_c_next_metadata_stream(
    bytes: &[u8],
    walk: &mut MetadataStreams,
    out: &mut MetadataStream,
) -> u32
    ensures stream { DirectoryHandsOut result out.old out.new
        (step_of (stream_reported walk.old) (first_stream_in bytes.now walk.old)) }
    ensures walk { walk.new ≡ streams_after walk.old (first_stream_in bytes.now walk.old) }
{
    hand_out_found(next_stream(bytes, walk), out)
}

// ---- guard tables

/// Returns a walk over a table of the load configuration of an image, by the table's number: 0 exception handlers of x86
/// (`SEHandlerTable`), 1 functions that may be called indirectly (`GuardCFFunctionTable`), 2 entries of the import address
/// table whose address is taken (`GuardAddressTakenIatEntryTable`), 3 targets of `longjmp` (`GuardLongJumpTargetTable`),
/// 4 continuations of exceptions (`GuardEHContinuationTable`). `NOTHING` where the image has no load configuration, or this
/// has no such table, and for another number. Strict and permissive mode make no difference.
///
/// Errors: those of `pe_c_load_config`; `DIRECTORY_VA_BELOW_BASE`, `UNMAPPED`.
#[unsafe(no_mangle)]
pub extern "C" fn pe_c_guard_table(view: &View, table: u32, out: &mut GuardEntries) -> u32
    ensures { DirectoryHandsOut result out.old out.new
        (guard_table_at table view.now.bytes.now view.now.image.now (may_map view.now)) }
{
    hand_out_found(guard_table_at(view, table), out)
}

// ---- load config

/// Returns the load configuration of an image: `NOTHING` where it is absent. Strict and permissive mode make no difference. Where
/// the image ends before the structure, it has the fields that are there.
///
/// Errors: `UNMAPPED`; `SHORT` of the 4 bytes of its size.
#[unsafe(no_mangle)]
pub extern "C" fn pe_c_load_config(view: &View, out: &mut LoadConfig) -> u32
    ensures { DirectoryHandsOut result out.old out.new
        (load_config_at view.now.bytes.now view.now.image.now (directory_sections view.now 10)) }
{
    hand_out_found(load_config_at(view), out)
}

/// Returns a field of the load configuration that `LoadConfig` does not have, by its number in the order of winnt.h: 0 to 11 what
/// is set for a process, from `GlobalFlagsClear` to `EditList`, and 12 to 36 what follows the guard flags, from
/// `CodeIntegrity.Flags` to `GuardMemcpyFunctionPointer`. `NOTHING` where the image has no load configuration, where its
/// structure is too short for the field, or the image, and for another number. Strict and permissive mode make no difference.
///
/// Errors: those of `pe_c_load_config`.
#[unsafe(no_mangle)]
pub extern "C" fn pe_c_load_config_field(view: &View, field: u32, out: &mut u64) -> u32
    ensures { DirectoryHandsOut result out.old out.new
        (numbered_field_at field view.now.bytes.now view.now.image.now
        (directory_sections view.now 10)) }
{
    hand_out_found(numbered_field_at(view, field), out)
}

// ---- tables

/// Returns the fields of an image's export directory, whatever its tables are: `NOTHING` where it is absent. Strict and permissive
/// mode make no difference.
///
/// Errors: `UNMAPPED`, `SHORT` of its 40 bytes.
#[unsafe(no_mangle)]
pub extern "C" fn pe_c_export_directory(view: &View, out: &mut ExportFields) -> u32
    ensures { HandsOutIf result out.old out.new (export_directory_at
        view.now.bytes.now view.now.image.now (map_of view.now)) }
{
    hand_out_some(export_directory_at(view), out)
}

/// Returns the directory at an offset of a resource tree: at 0 the first, whose entries are types, else one to which an entry
/// leads. `tree` is that of the walk which `pe_c_resource_leaves` returns.
///
/// Errors: `SHORT` where `tree` is not inside the bytes, or the directory or its entries are not inside the tree.
#[unsafe(no_mangle)]
pub extern "C" fn pe_c_resource_directory_at(
    bytes: &[u8],
    tree: &Range,
    offset: u32,
    out: &mut ResourceDirectory,
) -> u32
    ensures { HandsOut result out.old out.new (resource_directory_at bytes.now tree.now offset) }
{
    hand_out(resource_directory_at(bytes, tree, offset as usize), out)
}

/// Returns the first directory of the resources, whose entries are types: `NOTHING` where `pe_c_resource_leaves` returns it. In
/// permissive mode one whose entries are not all in the data has none.
///
/// Errors: those of `pe_c_resource_leaves`.
#[unsafe(no_mangle)]
pub extern "C" fn pe_c_resource_root(view: &View, out: &mut ResourceDirectory) -> u32
    ensures { HandsOutIf result out.old out.new (root_at view.now.bytes.now view.now.image.now
        (directory_sections view.now 2)) }
{
    hand_out_some(resource_root(view), out)
}

/// Reads the next entry of a resource directory, whose `entries` are the walk: `NOTHING` at its end. First come entries with a
/// name. An entry leads to the directory at its offset, or else to a data entry, whose numbers `pe_c_next_resource_leaf` returns.
///
/// Errors: `SHORT` where the walk is not inside the bytes, or an entry is truncated: then the walk is over; `SHORT` where `tree` is not
/// inside the bytes, or a name is not inside the tree: then the walk is past its entry.
#[unsafe(no_mangle)]
pub extern "C" fn pe_c_next_resource_item(
    bytes: &[u8],
    tree: &Range,
    walk: &mut Range,
    out: &mut ResourceItem,
) -> u32
    ensures entry { HandsOutIf result out.old out.new (next_item_of bytes.now tree.now walk.old) }
    ensures walk { walk.new ≡ walk_of 8 bytes.now walk.old }
{
    hand_out_some(next_resource_item(bytes, tree, walk), out)
}

// ---- tls

/// Returns the TLS directory of an image: `NOTHING` where it is absent. Strict and permissive mode make no difference.
///
/// Errors: `UNMAPPED`, `SHORT`.
#[unsafe(no_mangle)]
pub extern "C" fn pe_c_tls(view: &View, out: &mut TlsDirectory) -> u32
    ensures { DirectoryHandsOut result out.old out.new (tls_at view.now.bytes.now view.now.image.now
        (directory_sections view.now 9)) }
{
    hand_out_found(tls_at(view), out)
}

/// Returns a walk through the callbacks of a TLS directory, the range from the first to the end of the bytes: `NOTHING` where
/// the directory has no table of them.
///
/// Errors: `DIRECTORY_VA_BELOW_BASE`, `UNMAPPED`.
#[unsafe(no_mangle)]
pub extern "C" fn pe_c_tls_callbacks(view: &View, tls: &TlsDirectory, out: &mut Range) -> u32
    ensures { DirectoryHandsOut result out.old out.new
        (callbacks_at view.now.bytes.now view.now.image.now
        (may_map view.now) tls.now) }
{
    hand_out_found(callbacks_at(view, tls), out)
}

/// Steps through callbacks: returns the next one, a virtual address, and moves `walk` past it. `NOTHING` where the table ends:
/// then `walk` stays.
///
/// Error: `SHORT` where the bytes end before the table does, or where `walk` is not inside the bytes: then the walk is over.
#[unsafe(no_mangle)]
pub extern "C" fn pe_c_next_tls_callback(view: &View, walk: &mut Range, out: &mut u64) -> u32
    ensures callback { DirectoryHandsOut result out.old out.new
        (step_of (λ x. x) (first_va_in view.now.image.now view.now.bytes.now walk.old)) }
    ensures walk { walk.new ≡ left_after walk.old (first_va_in view.now.image.now view.now.bytes.now
        walk.old) }
{
    hand_out_found(next_callback(view, walk), out)
}

/// Lists bound imports, as `pe_c_next_bound_import` returns them, and moves the walk past them and their forwarders. Names are read
/// together: with one of `runs` for each of `entries`, or more, a call takes about as long as to sort these and to read each byte of
/// the directory a few times, however many of the names share a text. With less room further names are read to their end each. What
/// is in `runs` after the call is left open.
///
/// Errors: `ROOM` where `entries` is empty; those of `pe_c_next_bound_import`.
#[unsafe(no_mangle)]
pub extern "C" fn pe_c_list_bound_imports(
    bytes: &[u8],
    table: &Range,
    walk: &mut Range,
    runs: &mut [Run],
    entries: &mut [BoundImport],
    written: &mut u64,
) -> u32
    ensures { HandsOutList (Numbered directory_number (StepsBoundImports bytes.now table.now))
        result walk.old walk.new entries.old entries.new written.old written.new }
{
    let room = first_runs(runs, entries.len());
    let count = put_bound_names(bytes, walk, room);
    let imports = BoundNames::together(bytes, *table, &mut room[..count]);
    hand_out_list(&imports, walk, entries, written)
}

/// Lists what `pe_c_next_bound_forwarder` returns, and moves the walk past it. Names are read together, as by
/// `pe_c_list_bound_imports`.
///
/// A DLL has its time stamp and its name where a forwarder has them: a walk through all of the directory lists both, in their order,
/// which forwarders of many DLLs, a call each, would not in the time of one.
///
/// Errors: `ROOM` where `entries` is empty; those of `pe_c_next_bound_forwarder`.
#[unsafe(no_mangle)]
pub extern "C" fn pe_c_list_bound_forwarders(
    bytes: &[u8],
    table: &Range,
    walk: &mut Range,
    runs: &mut [Run],
    entries: &mut [BoundForwarder],
    written: &mut u64,
) -> u32
    ensures { HandsOutList (Numbered directory_number (StepsForwarders bytes.now table.now))
        result walk.old walk.new entries.old entries.new written.old written.new }
{
    let room = first_runs(runs, entries.len());
    let count = put_bound_forwarders(bytes, walk, room);
    let forwarders = BoundNames::together(bytes, *table, &mut room[..count]);
    hand_out_list(&forwarders, walk, entries, written)
}

/// Lists the DLLs of a walk, as `pe_c_next_delay_import` returns them, and moves the walk past them. The names are read together: with
/// one of `runs` for each of `entries`, or more, a call takes about as long as to sort these and to read each byte a few times,
/// however many of the names share a text. With less room further names are read to their end each. What is in `runs` after the call
/// is left open.
///
/// Errors: `ROOM` where `entries` is empty; those of `pe_c_next_delay_import`.
#[unsafe(no_mangle)]
pub extern "C" fn pe_c_list_delay_imports(
    view: &View,
    walk: &mut DelayWalk,
    runs: &mut [Run],
    entries: &mut [DelayLibrary],
    written: &mut u64,
) -> u32
    ensures { HandsOutList (Numbered directory_number (StepsKeptDelayLibraries view.now))
        result walk.old walk.new entries.old entries.new written.old written.new }
{
    if runs.is_empty() {
        return list_libraries(&NamedView::alone(view), walk, entries, written);
    }
    let room = first_runs(runs, entries.len());
    let count = put_dll_names(view, &walk.entries, room);
    let names = NamedView::together(view, &mut room[..count]);
    list_libraries(&names, walk, entries, written)
}

/// Lists what is imported of a DLL, as `pe_c_next_delayed_function` returns it, and moves the walk past it. The names are read together:
/// with one of `runs` for each of `entries`, or more, a call takes about as long as to sort these and to read each byte a few times,
/// however many of the names share a text. With less room further names are read to their end each. What is in `runs` after the call
/// is left open.
///
/// Errors: `ROOM` where `entries` is empty; those of `pe_c_next_delayed_function`.
#[tactic(auto, using(calls_base::proofs::NearMaps::no_window))]
#[unsafe(no_mangle)]
pub extern "C" fn pe_c_list_delayed_functions(
    view: &View,
    walk: &mut DelayedFunctionWalk,
    runs: &mut [Run],
    entries: &mut [DelayedFunction],
    written: &mut u64,
) -> u32
    ensures { HandsOutList (Numbered directory_number (StepsKeptFunctions view.now))
        result walk.old walk.new entries.old entries.new written.old written.new }
{
    if runs.is_empty() {
        return list_functions(&NamedView::alone(view), walk, entries, written);
    }
    let room = first_runs(runs, entries.len());
    let mut near = NO_WINDOW;
    let count = put_function_names(view, &walk.functions, &mut near, room);
    let names = NamedView::together(view, &mut room[..count]);
    list_functions(&names, walk, entries, written)
}

/// Lists the functions of all delay-loaded DLLs, as `pe_c_next_delay_import` returns these and `pe_c_next_delayed_function` the
/// functions of each, one DLL after the other, and moves the walk past them. DLLs without a function are read too. Names are read
/// together, those of the DLLs and those of their functions: with one of `runs` for each of `entries` and one for each DLL that
/// is left, or more, a call takes about as long as to sort these and to read each byte a few times, however many of the names
/// share a text. With less room further names are read to their end each. What is in `runs` after the call is left open.
///
/// DLLs may share a table, whose functions are listed for each of them: the room in `entries` bounds what a call takes.
///
/// Errors: `ROOM` where `entries` is empty; those of `pe_c_next_delayed_function`, and of `pe_c_next_delay_import`, in the order
/// of the walk. After an error the walk is over.
#[unsafe(no_mangle)]
pub extern "C" fn pe_c_list_all_delayed_functions(
    view: &View,
    walk: &mut LibraryFunctions,
    runs: &mut [Run],
    entries: &mut [LibraryFunction],
    written: &mut u64,
) -> u32
    ensures { HandsOutList (Numbered directory_number (StepsLibraryFunctions
        (map_of view.now) view.now.bytes.now view.now.image.now))
        result walk.old walk.new entries.old entries.new written.old written.new }
{
    let count = put_names(view, walk, entries.len(), runs);
    let names = NamedView::together(view, &mut runs[..count]);
    list_library_functions(&names, walk, entries, written)
}

/// Lists the blocks of a walk, as `pe_c_next_relocation_block` returns them, and moves the walk past them.
///
/// Errors: `ROOM` where `entries` is empty; those of `pe_c_next_relocation_block`.
#[unsafe(no_mangle)]
pub extern "C" fn pe_c_list_relocation_blocks(
    bytes: &[u8],
    walk: &mut Range,
    entries: &mut [RelocationBlock],
    written: &mut u64,
) -> u32
    ensures { HandsOutList (Numbered directory_number (StepsBlocks bytes.now))
        result walk.old walk.new entries.old entries.new written.old written.new }
{
    hand_out_list(&Blocks { bytes }, walk, entries, written)
}

/// Lists the relocations of a block, as `pe_c_next_relocation` returns them, and moves the walk past them. `page_rva` is that
/// of the block.
///
/// Errors: `ROOM` where `entries` is empty; those of `pe_c_next_relocation`.
#[unsafe(no_mangle)]
pub extern "C" fn pe_c_list_relocations(
    bytes: &[u8],
    page_rva: u32,
    walk: &mut Range,
    entries: &mut [Relocation],
    written: &mut u64,
) -> u32
    ensures { HandsOutList (Numbered directory_number (StepsRelocations page_rva bytes.now))
        result walk.old walk.new entries.old entries.new written.old written.new }
{
    let relocations = Relocations { bytes, page_rva };
    hand_out_list(&relocations, walk, entries, written)
}

/// Lists the entries of a table, as `pe_c_next_guard_entry` returns them, and moves the walk past them.
///
/// Errors: `ROOM` where `entries` is empty; those of `pe_c_next_guard_entry`.
#[unsafe(no_mangle)]
pub extern "C" fn pe_c_list_guard_entries(
    bytes: &[u8],
    walk: &mut GuardEntries,
    entries: &mut [GuardEntry],
    written: &mut u64,
) -> u32
    ensures { HandsOutList (Numbered directory_number (StepsGuardEntries bytes.now))
        result walk.old walk.new entries.old entries.new written.old written.new }
{
    hand_out_list(&Entries { bytes }, walk, entries, written)
}
