//! The functions of all delay-loaded DLLs in one walk. It goes through the walk over DLLs, and through the walk over the functions
//! of each. Where many DLLs name one long text their names are read together, which walks over one DLL each cannot do.
//! https://learn.microsoft.com/windows/win32/debug/pe-format#delay-load-import-tables-image-only

ghost use Rattle.std.specs.Prelude.{◌≡◌, ◌<◌, ◌≤◌, IfNone, length};
ghost use Rattle.std.specs.Option.{option_map};
ghost use Rattle.pe_directories.specs.DirectoryRefusals.{directory_answer};
ghost use Rattle.calls_base.specs.KeptSections.{ChangeNothing};
ghost use Rattle.calls_directories.specs.LibraryFunctions.{StepsLibraryFunctions, all_over, at_library, next_library, turn, with_library};
ghost use Rattle.calls_base.specs.NearMaps.{IsWindow};
ghost use Rattle.calls_base.specs.Views.{map_of};
ghost use Rattle.calls_base.specs.DirectoryResults.{directory_number};
ghost use Rattle.calls_base.specs.Lists.{HandsOutList, Numbered};
ghost use Rattle.calls_directories.specs.KeptWalks.{StepsKeptLibraryFunctions};

use crate::directories::delay_imports::{
    DelayLibrary, DelayedFunction, DelayedFunctions, kept_after_function_step, kept_after_library,
    next_function_kept, next_library_kept, offset_near, put_function_names,
};
use calls_base::directories::Result;
use calls_base::kept_sections::{KeptSections, KeptWalk, NO_SECTIONS};
use calls_base::lists::{Steps, hand_out_list};
use calls_base::named_view::NamedView;
use calls_base::near_map::{NO_WINDOW, Window};
use calls_base::ranges::{NO_BYTES, Range, slice_of};
use calls_base::results::number_of_directory;
use calls_base::text_runs::Run;
use calls_base::view::View;
use pe_directories::{DelayImport, DelayImports};

/// A walk over the functions of all DLLs of a delay import directory. It starts as zeros with what `pe_c_delay_imports` returns.
#[repr(C)]
#[derive(Clone, Copy)]
pub struct LibraryFunctions {
    /// The entries of the directory after that of the DLL that is walked over.
    pub libraries: Range,
    /// The functions that this one has left.
    pub functions: DelayedFunctions,
    /// Its name: UTF-8, without its final zero.
    pub library_name: Range,
    /// How many DLLs were begun. 0 before the first.
    pub begun: u64,
}

/// A function, and the DLL that it is of.
#[repr(C)]
#[derive(Clone, Copy)]
pub struct LibraryFunction {
    /// As `pe_c_next_delayed_function` returns it.
    pub function: DelayedFunction,
    /// The DLL's name: UTF-8, without its final zero.
    pub library_name: Range,
    /// The DLL's index in the order of the delay import directory.
    pub library: u64,
}

/// A function with its DLL, as a walk returns it.
fn with_library(walk: &LibraryFunctions, function: DelayedFunction) -> LibraryFunction
    ensures { result ≡ with_library walk.now.library_name walk.now.begun function }
{
    LibraryFunction {
        function,
        library_name: walk.library_name,
        library: walk.begun.saturating_sub(1),
    }
}

/// The walk after an error.
fn all_over(walk: &LibraryFunctions) -> LibraryFunctions
    ensures { result ≡ all_over walk.now }
{
    let functions = DelayedFunctions {
        left: NO_BYTES,
        ..walk.functions
    };
    LibraryFunctions {
        libraries: NO_BYTES,
        functions,
        ..*walk
    }
}

/// The walk at the start of a DLL, after which others are left.
fn at_library(walk: &LibraryFunctions, rest: Range, library: &DelayLibrary) -> LibraryFunctions
    ensures { result ≡ at_library walk.now rest library.now }
{
    LibraryFunctions {
        libraries: rest,
        functions: library.functions,
        library_name: library.name,
        begun: walk.begun.saturating_add(1),
    }
}

/// One turn: the next function of the DLL that is walked over. If it has none left none, and the next DLL begins; after the last
/// and after an error the step ends.
#[tactic(auto, unfolding(crate::specs::LibraryFunctions::turn))]
fn turn(
    names: &NamedView<'_>,
    kept: &mut KeptSections,
    walk: LibraryFunctions,
) -> (Option<Result<Option<LibraryFunction>>>, LibraryFunctions)
    requires { ChangeNothing names.now.view.now kept.old }
    ensures turn { (option_map (directory_answer (λ x. x)) result.0, result.1) ≡ turn
        (map_of names.now.view.now) names.now.view.now.bytes.now names.now.view.now.image.now walk }
    ensures onward { IfNone result.0 (result.1.libraries.length < walk.libraries.length) }
    ensures kept { ChangeNothing names.now.view.now kept.new }
{
    let mut left = walk.functions.left;
    let given = next_function_kept(names, *kept, walk.functions.attributes, &mut left);
    *kept = kept_after_function_step(names.view, *kept, &walk.functions, &given);
    match given {
        Ok(Some(function)) => {
            let found = with_library(&walk, function);
            let functions = DelayedFunctions {
                left,
                ..walk.functions
            };
            (
                Some(Ok(Some(found))),
                LibraryFunctions { functions, ..walk },
            )
        }
        Ok(None) => next_library(names, kept, walk),
        Err(error) => (Some(Err(error)), all_over(&walk)),
    }
}

/// The same of a DLL without a function.
fn next_library(
    names: &NamedView<'_>,
    kept: &mut KeptSections,
    walk: LibraryFunctions,
) -> (Option<Result<Option<LibraryFunction>>>, LibraryFunctions)
    requires { ChangeNothing names.now.view.now kept.old }
    ensures turn { (option_map (directory_answer (λ x. x)) result.0, result.1) ≡ next_library
        (map_of names.now.view.now) names.now.view.now.bytes.now names.now.view.now.image.now walk }
    ensures onward { IfNone result.0 (result.1.libraries.length < walk.libraries.length) }
    ensures kept { ChangeNothing names.now.view.now kept.new }
{
    let mut rest = walk.libraries;
    match next_library_kept(names, *kept, &mut rest) {
        Ok(Some(library)) => {
            *kept = kept_after_library(names.view, *kept, &library.descriptor);
            (None, at_library(&walk, rest, &library))
        }
        Ok(None) => (
            Some(Ok(None)),
            LibraryFunctions {
                libraries: rest,
                ..walk
            },
        ),
        Err(error) => (Some(Err(error)), all_over(&walk)),
    }
}

/// One step: the next function, of whichever DLL.
pub fn step(
    names: &NamedView<'_>,
    kept: &mut KeptSections,
    walk: &mut LibraryFunctions,
) -> Result<Option<LibraryFunction>>
    requires { ChangeNothing names.now.view.now kept.old }
    ensures step { StepsLibraryFunctions (map_of names.now.view.now)
        names.now.view.now.bytes.now names.now.view.now.image.now walk.old (directory_answer (λ x. x) result) walk.new }
    ensures kept { ChangeNothing names.now.view.now kept.new }
{
    loop {
        let (given, after) = turn(names, kept, *walk);
        *walk = after;
        match given {
            Some(given) => return given,
            // The next DLL has begun.
            None => {}
        }
    }
}

/// Writes the offset of the name of an entry's DLL to a run, as a start, and returns a walk over its functions. Nothing where one
/// of them is not mapped.
fn put_dll(
    view: &View,
    entry: &DelayImport,
    near: &mut Window,
    run: &mut Run,
) -> Option<DelayedFunctions>
    requires { IsWindow (map_of view.now) near.old }
    ensures { IsWindow (map_of view.now) near.new }
{
    let attributes = entry.attributes;
    let name = offset_near(view, attributes, u64::from(entry.name), near)?;
    let table = offset_near(view, attributes, u64::from(entry.import_name_table), near)?;
    *run = Run::at(name);
    Some(DelayedFunctions {
        left: Range {
            offset: table as u64,
            length: view.bytes.len().saturating_sub(table) as u64,
        },
        attributes,
        spare: 0,
    })
}

/// Writes the offsets of the names that a walk reads to return so many functions, those of the DLLs too, to a room, as starts, as
/// far as it has room, and returns how many they are. A walk ends at a DLL whose name or table is not mapped.
#[tactic(auto, using(calls_base::proofs::NearMaps::no_window))]
pub fn put_names(view: &View, walk: &LibraryFunctions, most: usize, room: &mut [Run]) -> usize
    ensures { result ≤ length room.new }
{
    let own = most.min(room.len());
    let mut near = NO_WINDOW;
    let mut count = put_function_names(view, &walk.functions, &mut near, &mut room[..own]);
    let mut left = most - count;
    let Ok(bytes) = slice_of(view.bytes, &walk.libraries) else {
        return count;
    };
    let mut entries = DelayImports::new(bytes);
    for i in 0..room.len() {
        if left == 0 || count == room.len() {
            break;
        }
        let Some(Ok(entry)) = entries.next() else {
            break;
        };
        let Some(functions) = put_dll(view, &entry, &mut near, &mut room[count]) else {
            break;
        };
        count += 1;
        let end = left.min(room.len() - count) + count;
        let taken = put_function_names(view, &functions, &mut near, &mut room[count..end]);
        count += taken;
        left -= taken;
    }
    count
}

/// Steps over the functions of all DLLs in a list.
#[derive(Clone, Copy)]
pub struct InLibraries;

impl<'a> Steps<KeptWalk<'a, LibraryFunctions>, LibraryFunction> for InLibraries {
    ghost steps = { λ s. Numbered directory_number StepsKeptLibraryFunctions };

    fn step(
        &self,
        list: &mut KeptWalk<'a, LibraryFunctions>,
    ) -> std::result::Result<Option<LibraryFunction>, u32> {
        let KeptWalk {
            names,
            mut walk,
            mut kept,
            ..
        } = *list;
        let given = step(&names, &mut kept, &mut walk);
        *list = KeptWalk { names, walk, kept };
        match given {
            Ok(function) => Ok(function),
            Err(error) => Err(number_of_directory(&error)),
        }
    }
}

/// Lists the functions of a walk.
pub fn list_library_functions(
    names: &NamedView<'_>,
    walk: &mut LibraryFunctions,
    entries: &mut [LibraryFunction],
    written: &mut u64,
) -> u32
    ensures { HandsOutList (Numbered directory_number (StepsLibraryFunctions (map_of names.now.view.now)
        names.now.view.now.bytes.now names.now.view.now.image.now))
        result walk.old walk.new entries.old entries.new written.old written.new }
{
    let mut list = KeptWalk {
        names: *names,
        walk: *walk,
        kept: NO_SECTIONS,
    };
    let number = hand_out_list(&InLibraries, &mut list, entries, written);
    *walk = list.walk;
    number
}
