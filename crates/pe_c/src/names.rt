//! Calls on exports and imports, over calls_directories.

ghost use Rattle.std.specs.Prelude.{◌-◌, ◌/◌, ◌==◌};
ghost use Rattle.calls_base.specs.HandsOut.{HandsOutIf, result_number};
ghost use Rattle.calls_base.specs.Views.{map_of};
ghost use Rattle.calls_directories.specs.ExportAddresses.{address_table_at, exported_at};
ghost use Rattle.calls_directories.specs.Exports.{tables_at};
ghost use Rattle.calls_directories.specs.Imports.{libraries_at};
ghost use Rattle.calls_directories.specs.KeptWalks.{StepsKeptImports, StepsKeptLibraries, StepsKeptExports};
ghost use Rattle.pe_c.specs.WalkStarts.{HandsOutStep};
ghost use Rattle.pe_core.specs.Refusals.{Returns};
ghost use Rattle.calls_base.specs.Lists.{HandsOutList, Numbered, StepsByIndex};
ghost use Rattle.pe_core.specs.Imports.{entry_size};
ghost use Rattle.calls_directories.specs.LibraryImports.{StepsLibraryImports};

use calls_base::image::directory;
use calls_base::lists::Steps;
use calls_base::named_view::NamedView;
use calls_base::near_map::NO_WINDOW;
use calls_base::ranges::bytes_there;
use calls_base::results::hand_out_some;
use calls_base::text_runs::Run;
use calls_base::view::View;
use calls_directories::names::all_imports::{
    LibraryImport, LibraryImports, list_library_imports, put_names,
};
use calls_directories::names::export_addresses::{AddressTable, Exported, exported_at, table_at};
use calls_directories::names::exports::{
    Export, ExportWalk, Exports, list_addresses, list_exports, named_forwarders, tables_at,
    texts_of,
};
use calls_directories::names::imports::{
    Import, ImportWalk, Libraries, Library, LibraryWalk, libraries_at, list_imports,
    list_libraries, named_libraries, put_entry_names, step_import, step_library,
};
use pe_core::RvaMap;

// ---- export addresses

/// Returns the address table of an image's export directory, its ordinal base and the DLL's name: `NOTHING` where the
/// directory is absent. Strict and permissive mode make no difference.
///
/// Errors: those of `pe_c_export_tables`.
#[unsafe(no_mangle)]
pub extern "C" fn pe_c_export_addresses(view: &View, out: &mut AddressTable) -> u32
    ensures { HandsOutIf result out.old out.new
        (address_table_at view.now.bytes.now view.now.image.now (map_of view.now)) }
{
    hand_out_some(table_at(view), out)
}

/// Reads the entry with an index, from 0: `NOTHING` where the table has no such entry. Strict and permissive mode make no
/// difference. A list with room for one takes two thirds more instructions.
///
/// Errors: `SHORT` where the table is not inside the bytes.
#[unsafe(no_mangle)]
pub extern "C" fn pe_c_export_at(
    view: &View,
    table: &AddressTable,
    index: u64,
    out: &mut Exported,
) -> u32
    ensures { HandsOutIf result out.old out.new
        (exported_at (map_of view.now) view.now.bytes.now table.now index) }
{
    hand_out_some(exported_at(&NamedView::alone(view), table, index), out)
}

// ---- exports

/// Returns the tables of an image's export directory, where a walk starts: `NOTHING` where the directory is absent.
/// Strict and permissive mode make no difference.
///
/// Errors: `UNMAPPED`, `SHORT` of the directory; `UNMAPPED`, `SHORT` of each table: of RVAs, of names, of ordinals.
#[unsafe(no_mangle)]
pub extern "C" fn pe_c_export_tables(view: &View, out: &mut Exports) -> u32
    ensures { HandsOutIf result out.old out.new (tables_at view.now.bytes.now view.now.image.now
        (map_of view.now)) }
{
    hand_out_some(tables_at(view), out)
}

// ---- imports

/// Returns where a walk over the libraries of an image starts: `NOTHING` where the directory
/// is absent. Strict and permissive mode make no difference.
///
/// Errors: `UNMAPPED`.
#[unsafe(no_mangle)]
pub extern "C" fn pe_c_import_libraries(view: &View, out: &mut Libraries) -> u32
    ensures { HandsOutIf result out.old out.new (libraries_at view.now.image.now
        (map_of view.now)) }
{
    hand_out_some(libraries_at(view), out)
}

/// Reads the next library of a walk, and moves the walk past it: `NOTHING` after the last.
///
/// Errors, after which the walk is over: `SHORT` where the record is truncated; `UNMAPPED`, `IMPORT_NAME` of its name; `SHORT` where no
/// zero entry ends its list.
#[unsafe(no_mangle)]
pub extern "C" fn pe_c_next_library(view: &View, walk: &mut LibraryWalk, out: &mut Library) -> u32
    ensures { HandsOutStep (StepsKeptLibraries view.now) result walk.old walk.new out.old out.new }
{
    hand_out_some(step_library(&NamedView::alone(view), walk), out)
}

/// Reads the next import of a library, and moves the walk past it: `NOTHING` after the last. A list with room for one takes a sixth more
/// instructions.
///
/// Errors, after which the walk is over: `SHORT` where the entries are not inside the bytes; of an import by name `UNMAPPED` of the RVA
/// of its hint, `SHORT` of the hint, `IMPORT_NAME`.
#[unsafe(no_mangle)]
pub extern "C" fn pe_c_next_import(view: &View, walk: &mut ImportWalk, out: &mut Import) -> u32
    ensures { HandsOutStep (StepsKeptImports view.now) result walk.old walk.new out.old out.new }
{
    hand_out_some(step_import(&NamedView::alone(view), walk), out)
}

/// Lists the libraries of a walk, as `pe_c_next_library` returns them, and moves the walk past them. The names are read together, and
/// the ends of the lists of imports: with two of `runs` for each library that is left, or more, a call takes about as long as to sort
/// these and to read each byte a few times, however many of the names and lists share a text or a list. With less room further ones
/// are read to their end each. What is in `runs` after the call is left open.
///
/// Errors: `ROOM` where `entries` is empty; those of `pe_c_next_library`.
#[unsafe(no_mangle)]
pub extern "C" fn pe_c_list_libraries(
    view: &View,
    walk: &mut LibraryWalk,
    runs: &mut [Run],
    entries: &mut [Library],
    written: &mut u64,
) -> u32
    ensures { HandsOutList (Numbered result_number (StepsKeptLibraries view.now))
        result walk.old walk.new entries.old entries.new written.old written.new }
{
    if runs.is_empty() {
        return list_libraries(&NamedView::alone(view), walk, entries, written);
    }
    let names = named_libraries(view, &walk.libraries, runs);
    list_libraries(&names, walk, entries, written)
}

/// Lists the imports of a library, as `pe_c_next_import` returns them, and moves the walk past them. The names are read together: with
/// one of `runs` for each import that is left, or more, a call takes about as long as to sort these and to read each byte once or
/// twice, however many of the names share a text. With less room further names are read to their end each. What is in `runs` after
/// the call is left open.
///
/// Errors: `ROOM` where `entries` is empty; those of `pe_c_next_import`.
#[tactic(auto, using(calls_base::proofs::NearMaps::no_window))]
#[unsafe(no_mangle)]
pub extern "C" fn pe_c_list_imports(
    view: &View,
    walk: &mut ImportWalk,
    runs: &mut [Run],
    entries: &mut [Import],
    written: &mut u64,
) -> u32
    ensures { HandsOutList (Numbered result_number (StepsKeptImports view.now))
        result walk.old walk.new entries.old entries.new written.old written.new }
{
    if runs.is_empty() {
        return list_imports(&NamedView::alone(view), walk, entries, written);
    }
    let mut hints = NO_WINDOW;
    let left = bytes_there(view.bytes, &walk.imports.left);
    let count = put_entry_names(view, left, &mut hints, runs);
    let names = NamedView::together(view, &mut runs[..count]);
    list_imports(&names, walk, entries, written)
}

/// Lists the imports of all libraries, as `pe_c_next_library` returns these and `pe_c_next_import` the imports of each, one library
/// after the other, and moves the walk past them. Libraries without an import are read too. Names are read together, those of the
/// libraries and those of their imports: with one of `runs` for each of `entries` and one for each library that is left, or more,
/// a call takes about as long as to sort these and to read each byte a few times, however many of the names share a text. With
/// less room further names are read to their end each. What is in `runs` after the call is left open.
///
/// Libraries may share a list, whose imports are listed for each of them: the room in `entries` bounds what a call takes.
///
/// Errors: `ROOM` where `entries` is empty; those of `pe_c_next_import`, and of `pe_c_next_library`, in the order of the walk. After
/// an error the walk is over.
#[unsafe(no_mangle)]
pub extern "C" fn pe_c_list_all_imports(
    view: &View,
    walk: &mut LibraryImports,
    runs: &mut [Run],
    entries: &mut [LibraryImport],
    written: &mut u64,
) -> u32
    ensures { HandsOutList (Numbered result_number
        (StepsLibraryImports (map_of view.now)
        (entry_size (view.now.image.now.width == 64)) view.now.bytes.now))
        result walk.old walk.new entries.old entries.new written.old written.new }
{
    let count = put_names(view, walk, entries.len(), runs);
    let names = NamedView::together(view, &mut runs[..count]);
    list_library_imports(&names, walk, entries, written)
}

/// Lists the exports of a walk that have a name, as `pe_c_next_export` returns them, and moves the walk past them. Names and forwarders'
/// texts that share much are read together: with two of `runs` for each entry that the name table has left, or more, a call takes
/// about as long as to sort these and to read each byte a few times, however many of them share a text. With less room further ones
/// are read to their end each. What is in `runs` after the call is left open.
///
/// Errors: `ROOM` where `entries` is empty; `SHORT` where the tables are not inside the bytes.
#[unsafe(no_mangle)]
pub extern "C" fn pe_c_list_exports(
    view: &View,
    walk: &mut ExportWalk,
    runs: &mut [Run],
    entries: &mut [Export],
    written: &mut u64,
) -> u32
    ensures { HandsOutList (Numbered result_number (StepsKeptExports view.now))
        result walk.old walk.new entries.old entries.new written.old written.new }
{
    let names = texts_of(view, &walk.exports, runs);
    list_exports(&names, walk, entries, written)
}

/// Lists the entries of an address table from an index on, as `pe_c_export_at` reads them, and moves `next` past them. The texts of
/// forwarders are read together: with one of `runs` for each of `entries`, or more, a call takes about as long as to sort these and to
/// read each byte a few times, however many of the forwarders share a text. With less room further ones are read to their end each.
/// What is in `runs` after the call is left open.
///
/// Errors: `ROOM` where `entries` is empty; `SHORT` where the table is not inside the bytes.
#[unsafe(no_mangle)]
pub extern "C" fn pe_c_list_export_addresses(
    view: &View,
    table: &AddressTable,
    next: &mut u64,
    runs: &mut [Run],
    entries: &mut [Exported],
    written: &mut u64,
) -> u32
    ensures { HandsOutList (Numbered result_number (StepsByIndex (exported_at
        (map_of view.now) view.now.bytes.now table.now)))
        result next.old next.new entries.old entries.new written.old written.new }
{
    let names = named_forwarders(view, table, *next, entries.len(), runs);
    list_addresses(&names, table, next, entries, written)
}
