//! Imports. The import directory has a record of 20 bytes for each DLL (here a library), which leads to the DLL's name
//! and to the list of its imports, by name or by ordinal. One walk steps over the libraries, another over the imports
//! of each.
//! https://learn.microsoft.com/windows/win32/debug/pe-format#the-idata-section

ghost use Rattle.std.specs.Prelude.{◌≡◌, ◌==◌, ◌+◌, ◌<◌, ◌≤◌, ◌^◌, length, Some, IfOk, IfSome};
ghost use Rattle.pe_core.specs.Imports.{entry_size, name_or_refusal};
ghost use Rattle.pe_core.specs.Refusals.{Returns, ReturnsAs, answer_of};
ghost use Rattle.pe_core.specs.Text.{text_at};
ghost use Rattle.calls_base.specs.KeptSections.{ChangeNothing, map_kept, no_sections};
ghost use Rattle.calls_directories.specs.KeptWalks.{StepsKeptImports, StepsKeptLibraries, StepsNearImports};
ghost use Rattle.calls_base.specs.NearMaps.{IsWindow};
ghost use Rattle.calls_base.specs.Views.{map_of};
ghost use Rattle.calls_directories.specs.Imports.{hint_rva, import_at, import_step, libraries_at, library_at, library_of, library_step, named_reported};
ghost use Rattle.calls_base.specs.HandsOut.{result_number};
ghost use Rattle.calls_base.specs.Lists.{HandsOutList, Numbered};

use crate::names::near_imports::{NearImports, step_near};
use calls_base::image::{IMPORT_TABLE, directory, is_absent};
use calls_base::kept_sections::{
    KeptSections, NO_SECTIONS, keeps_none, keeps_sections, kept_after, map_kept, require_kept,
};
use calls_base::lists::{Steps, hand_out_list, numbered};
use calls_base::named_view::NamedView;
use calls_base::near_map::{NO_WINDOW, Window, map_near};
use calls_base::ranges::{NO_BYTES, Range, bytes_there, range_from};
use calls_base::text_runs::Run;
use calls_base::view::View;
use calls_base::walks::next_entry;
use pe_core::{
    Error, ImportDirectoryEntry, Reason, Result, RvaMap, lookup_number, lookup_size, require_bytes,
    u16_at,
};

/// The size of a record of the import directory in bytes.
const SIZE_OF_RECORD: u64 = 20;

/// The size of the hint before an import's name in bytes.
pub const SIZE_OF_HINT: usize = 2;

/// Where a walk over the libraries of an import directory stands.
#[repr(C)]
#[derive(Clone, Copy)]
pub struct Libraries {
    /// File offset of the next record of the directory.
    pub next: u64,
    /// 1 after the last library or an error, else 0.
    pub is_over: u32,
    /// 0.
    pub spare: u32,
}

/// Where a walk over the imports of a library stands.
#[repr(C)]
#[derive(Clone, Copy)]
pub struct Imports {
    /// The entries of its list that are left, without the zero entry that ends it: 8 bytes each in PE32+, else 4.
    pub left: Range,
    /// RVA of the next import's slot in the address table.
    pub rva: u64,
}

/// A walk over libraries.
#[repr(C)]
#[derive(Clone, Copy)]
pub struct LibraryWalk {
    /// Where it stands.
    pub libraries: Libraries,
    /// The sections of its last RVAs.
    pub kept: KeptSections,
}

/// A walk over the imports of a library.
#[repr(C)]
#[derive(Clone, Copy)]
pub struct ImportWalk {
    /// Where it stands.
    pub imports: Imports,
    /// The sections of its last RVAs.
    pub kept: KeptSections,
}

/// A library (DLL) that an image imports from, and the numbers of its record (`IMAGE_IMPORT_DESCRIPTOR`).
#[repr(C)]
#[derive(Clone, Copy)]
pub struct Library {
    /// UTF-8, without its final zero.
    pub name: Range,
    /// Where a walk over its imports starts, for `ImportWalk`.
    pub imports: Imports,
    /// RVA of its lookup table, or 0: then the address table is the list of its imports.
    pub lookup_table_rva: u32,
    /// Not 0 where the imports are bound.
    pub time_date_stamp: u32,
    /// Index of the first forwarder, or -1.
    pub forwarder_chain: u32,
    /// RVA of the library's name.
    pub name_rva: u32,
    /// RVA of its address table, whose slots the loader fills.
    pub address_table_rva: u32,
    /// 0.
    pub spare: u32,
}

/// An import.
#[repr(C)]
#[derive(Clone, Copy)]
pub struct Import {
    /// UTF-8, without its final zero. Empty where `has_name` is 0.
    pub name: Range,
    /// RVA of the slot that the loader fills.
    pub rva: u64,
    /// The ordinal, or the hint for a name: an index into the library's table of names.
    pub ordinal: u32,
    /// 1 where the import is by name, else 0.
    pub has_name: u32,
}

/// Where a walk over libraries is over.
pub const NO_LIBRARIES: Libraries = Libraries {
    next: 0,
    is_over: 1,
    spare: 0,
};

/// The name at a file offset, to which an RVA leads: `ImportName` where it is not NUL-terminated or not UTF-8.
fn name_at<'a>(names: &NamedView<'a>, offset: usize, rva: u32) -> Result<&'a str>
    ensures { ReturnsAs (λ s. s.now) result
        (name_or_refusal (text_at names.now.view.now.bytes.now offset)) }
{
    match names.text_at(offset) {
        Some(name) => Ok(name),
        None => Err(Error::Malformed(Reason::ImportName(rva))),
    }
}

/// Where a walk over the libraries of an image starts.
pub fn libraries_at(view: &View) -> Result<Option<Libraries>>
    ensures { answer_of result ≡ libraries_at view.now.image.now (map_of view.now) }
{
    let directory = directory(view.image, IMPORT_TABLE);
    if is_absent(directory) {
        return Ok(None);
    }
    let offset = view.file_offset(directory.virtual_address)?;
    Ok(Some(Libraries {
        next: offset as u64,
        is_over: 0,
        spare: 0,
    }))
}

/// The library of a record. Errors: `Unmapped`, `ImportName` of its name, then `Short` of its list.
#[tactic(auto, unfolding(pe_core::specs::Imports::import_record))]
fn library_of(
    names: &NamedView<'_>,
    kept: KeptSections,
    entry: &ImportDirectoryEntry,
) -> Result<Library>
    ensures { ReturnsAs (λ l. Some l) result (library_of (map_kept names.now.view.now kept)
        (entry_size (names.now.view.now.image.now.width == 64)) names.now.view.now.bytes.now entry.now) }
{
    let offset = require_kept(names.view, kept, entry.name_rva)?;
    let name = name_at(names, offset, entry.name_rva)?;
    let list_offset = map_kept(names.view, kept, u64::from(entry.lookups_rva()));
    let list = names.list_at(list_offset)?;
    Ok(Library {
        name: range_from(name.len() as u64, Some(offset)),
        imports: Imports {
            left: range_from(list.len() as u64, list_offset),
            rva: u64::from(entry.address_table_rva),
        },
        lookup_table_rva: entry.lookup_table_rva,
        time_date_stamp: entry.time_date_stamp,
        forwarder_chain: entry.forwarder_chain,
        name_rva: entry.name_rva,
        address_table_rva: entry.address_table_rva,
        spare: 0,
    })
}

/// The library whose record is at a file offset, or none where the record ends the directory.
#[tactic(auto, unfolding(pe_core::specs::Imports::import_record_at))]
fn library_at(names: &NamedView<'_>, kept: KeptSections, offset: usize) -> Result<Option<Library>>
    ensures returned { Returns result (library_at (map_kept names.now.view.now kept)
        (entry_size (names.now.view.now.image.now.width == 64)) names.now.view.now.bytes.now offset) }
    ensures small { IfOk result (λ l. IfSome l (λ _. offset + 20 < 2 ^ 64)) }
{
    let entry = ImportDirectoryEntry::parse(names.view.bytes, offset)?;
    if entry.is_last() {
        return Ok(None);
    }
    let library = library_of(names, kept, &entry)?;
    Ok(Some(library))
}

/// One step over libraries: its result, and the walk after it.
#[tactic(auto, unfolding(crate::specs::Imports::library_step))]
pub fn library_step(
    names: &NamedView<'_>,
    kept: KeptSections,
    walk: Libraries,
) -> (Result<Option<Library>>, Libraries)
    ensures returned { (answer_of result.0, result.1) ≡ library_step
        (map_kept names.now.view.now kept) (entry_size (names.now.view.now.image.now.width == 64)) names.now.view.now.bytes.now walk }
    ensures onward { IfOk result.0 (λ l. IfSome l (λ _. walk.next < result.1.next)) }
{
    if walk.is_over != 0 {
        return (Ok(None), walk);
    }
    match library_at(names, kept, walk.next as usize) {
        Ok(Some(library)) => {
            let after = Libraries {
                next: walk.next + SIZE_OF_RECORD,
                is_over: 0,
                spare: 0,
            };
            (Ok(Some(library)), after)
        }
        other => (other, NO_LIBRARIES),
    }
}

/// What a walk keeps after a library: the sections of its name and of its list.
fn kept_after_library(view: &View, kept: KeptSections, library: &Library) -> KeptSections
    ensures { ChangeNothing view.now kept → ChangeNothing view.now result }
{
    if !keeps_sections(view) {
        return kept;
    }
    let kept = kept_after(view, kept, library.name_rva);
    let list = if library.lookup_table_rva == 0 {
        library.address_table_rva
    } else {
        library.lookup_table_rva
    };
    kept_after(view, kept, list)
}

/// What a walk keeps after a step that returns this.
pub fn kept_after_library_step(
    view: &View,
    kept: KeptSections,
    given: &Result<Option<Library>>,
) -> KeptSections
    ensures { ChangeNothing view.now kept → ChangeNothing view.now result }
{
    match given {
        Ok(Some(library)) => kept_after_library(view, kept, library),
        _ => kept,
    }
}

/// One step of a walk that keeps sections which change no offset.
pub fn library_step_kept(
    names: &NamedView<'_>,
    kept: KeptSections,
    walk: Libraries,
) -> (Result<Option<Library>>, Libraries)
    requires { ChangeNothing names.now.view.now kept }
    ensures returned { (answer_of result.0, result.1) ≡ library_step (map_of names.now.view.now)
        (entry_size (names.now.view.now.image.now.width == 64)) names.now.view.now.bytes.now walk }
    ensures onward { IfOk result.0 (λ l. IfSome l (λ _. walk.next < result.1.next)) }
{
    library_step(names, kept, walk)
}

/// The import by name of an entry. Errors: `Unmapped` of the entry's RVA, `Short` of the hint, `ImportName`.
fn named_import(names: &NamedView<'_>, kept: KeptSections, entry: u64, rva: u64) -> Result<Import>
    ensures { Returns result (named_reported
        (map_kept names.now.view.now kept) names.now.view.now.bytes.now entry rva) }
{
    let name_rva = (entry % 0x8000_0000) as u32;
    let offset = require_kept(names.view, kept, name_rva)?;
    let hint = u16_at(names.view.bytes, offset)?;
    let name = name_at(names, offset + SIZE_OF_HINT, name_rva)?;
    Ok(Import {
        name: range_from(name.len() as u64, Some(offset + SIZE_OF_HINT)),
        rva,
        ordinal: u32::from(hint),
        has_name: 1,
    })
}

/// The import of an entry and its slot. With its highest bit set the low 16 bits of an entry are an ordinal; else its
/// low 31 bits are the RVA of a hint and a name.
#[inline(always)]
#[tactic(auto, unfolding(pe_core::specs::Imports::import_of))]
fn import_at(names: &NamedView<'_>, kept: KeptSections, entry: u64, rva: u64) -> Result<Import>
    ensures { Returns result (import_at (map_kept names.now.view.now kept)
        (entry_size (names.now.view.now.image.now.width == 64)) names.now.view.now.bytes.now entry rva) }
{
    let highest = if names.view.image.width == 64 {
        0x8000_0000_0000_0000
    } else {
        0x8000_0000
    };
    if entry >= highest {
        return Ok(Import {
            name: NO_BYTES,
            rva,
            ordinal: (entry % 0x1_0000) as u32,
            has_name: 0,
        });
    }
    named_import(names, kept, entry, rva)
}

/// One step over the imports of a library, by these sections first. Inlined in each of its callers, since a call costs a fifth of
/// a step.
#[inline(always)]
#[tactic(auto, unfolding(crate::specs::Imports::import_step))]
fn import_step(
    names: &NamedView<'_>,
    kept: KeptSections,
    walk: &mut Imports,
) -> Result<Option<Import>>
    ensures returned { (answer_of result, walk.new) ≡ import_step
        (map_kept names.now.view.now kept) (entry_size (names.now.view.now.image.now.width == 64)) names.now.view.now.bytes.now walk.old }
    ensures there { IfOk result (λ i. IfSome i (λ _. walk.old.left.offset
        + entry_size (names.now.view.now.image.now.width == 64) ≤ length names.now.view.now.bytes.now)) }
{
    let is_64 = names.view.image.width == 64;
    let size = lookup_size(is_64);
    let Some(left) = next_entry(names.view.bytes, &mut walk.left, size)? else {
        return Ok(None);
    };
    let entry = lookup_number(left, 0, is_64);
    match import_at(names, kept, entry, walk.rva) {
        Ok(import) => {
            // A caller may pass any RVA.
            walk.rva = walk.rva.wrapping_add(size as u64);
            Ok(Some(import))
        }
        Err(error) => {
            walk.left = NO_BYTES;
            Err(error)
        }
    }
}

/// One step of a walk that keeps no sections.
pub fn import_by_view(names: &NamedView<'_>, walk: &mut Imports) -> Result<Option<Import>>
    ensures { (answer_of result, walk.new) ≡ import_step (map_of names.now.view.now)
        (entry_size (names.now.view.now.image.now.width == 64)) names.now.view.now.bytes.now walk.old }
{
    import_step(names, NO_SECTIONS, walk)
}

/// One step of a walk over libraries.
pub fn step_library(names: &NamedView<'_>, walk: &mut LibraryWalk) -> Result<Option<Library>>
    ensures { StepsKeptLibraries names.now.view.now walk.old (answer_of result) walk.new }
{
    let (given, after) = library_step(names, walk.kept, walk.libraries);
    walk.libraries = after;
    if let Ok(Some(library)) = &given {
        walk.kept = kept_after_library(names.view, walk.kept, library);
    }
    given
}

/// What a walk keeps after the import that it was at: the section of its hint.
#[inline(always)]
fn kept_after_import(
    view: &View,
    kept: KeptSections,
    before: &Imports,
    import: &Import,
) -> KeptSections
    ensures { ChangeNothing view.now kept → ChangeNothing view.now result }
{
    if import.has_name == 0 || !keeps_sections(view) {
        return kept;
    }
    kept_after(view, kept, hint_rva(view, before))
}

/// One step of a walk over the imports of a library.
pub fn step_import(names: &NamedView<'_>, walk: &mut ImportWalk) -> Result<Option<Import>>
    ensures { StepsKeptImports names.now.view.now walk.old (answer_of result) walk.new }
{
    let before = walk.imports;
    let given = import_step(names, walk.kept, &mut walk.imports);
    if let Ok(Some(import)) = &given {
        walk.kept = kept_after_import(names.view, walk.kept, &before, import);
    }
    given
}

/// One of the records that a walk may have left, by its index among them. None at the record that ends the directory.
pub fn record_left(view: &View, walk: &Libraries, index: usize) -> Option<ImportDirectoryEntry> {
    let offset = index.saturating_mul(SIZE_OF_RECORD as usize);
    let at = (walk.next as usize).saturating_add(offset);
    let entry = ImportDirectoryEntry::parse(view.bytes, at).ok()?;
    if entry.is_last() { None } else { Some(entry) }
}

/// Writes the offsets of the names of the next libraries, or of their lists, to a room, as starts, as far as it has room, and returns
/// how many they are.
#[tactic(auto, using(calls_base::proofs::NearMaps::no_window))]
fn put_offsets(view: &View, walk: &Libraries, of_lists: bool, room: &mut [Run]) -> usize
    ensures { result ≤ length room.new }
{
    let mut count = 0;
    let mut near = NO_WINDOW;
    for i in 0..room.len() {
        let Some(entry) = record_left(view, walk, i) else {
            break;
        };
        let rva = if of_lists {
            entry.lookups_rva()
        } else {
            entry.name_rva
        };
        if let Some(offset) = map_near(view, rva, &mut near) {
            room[count] = Run::at(offset);
            count += 1;
        }
    }
    count
}

/// Writes the offsets of the names of imports, of which these are the entries, in the same way. An ordinal counts as the RVA of a name, which
/// costs a run that is not asked for.
pub fn put_entry_names(view: &View, entries: &[u8], near: &mut Window, room: &mut [Run]) -> usize
    requires { IsWindow (map_of view.now) near.old }
    ensures count { result ≤ length room.new }
    ensures near { IsWindow (map_of view.now) near.new }
{
    let mut count = 0;
    let is_64 = view.image.width == 64;
    let size = lookup_size(is_64);
    for i in 0..entries.len() / size {
        if count == room.len() {
            break;
        }
        let rva = (lookup_number(entries, size * i, is_64) % 0x8000_0000) as u32;
        if let Some(offset) = map_near(view, rva, near) {
            room[count] = Run::at(offset.saturating_add(SIZE_OF_HINT));
            count += 1;
        }
    }
    count
}

/// The RVA of the hint to which the entry leads that a walk over imports is at.
pub fn hint_rva(view: &View, walk: &Imports) -> u32
    ensures { result ≡ hint_rva
        (entry_size (view.now.image.now.width == 64)) view.now.bytes.now walk.now }
{
    let is_64 = view.image.width == 64;
    let left = bytes_there(view.bytes, &walk.left);
    match require_bytes(left, 0, lookup_size(is_64)) {
        Ok(()) => (lookup_number(left, 0, is_64) % 0x8000_0000) as u32,
        Err(_) => 0,
    }
}

impl<'a> Steps<LibraryWalk, Library> for NamedView<'a> {
    ghost steps = { λ s. Numbered result_number (StepsKeptLibraries s.view.now) };

    fn step(&self, walk: &mut LibraryWalk) -> std::result::Result<Option<Library>, u32> {
        numbered(step_library(self, walk))
    }
}

/// Lists the libraries of a walk.
pub fn list_libraries(
    names: &NamedView<'_>,
    walk: &mut LibraryWalk,
    entries: &mut [Library],
    written: &mut u64,
) -> u32
    ensures { HandsOutList (Numbered result_number (StepsKeptLibraries names.now.view.now))
        result walk.old walk.new entries.old entries.new written.old written.new }
{
    hand_out_list(names, walk, entries, written)
}

/// An image of which the names and lists of the next libraries are read together: a half of the room is for each.
pub fn named_libraries<'a>(
    view: &'a View<'a>,
    walk: &Libraries,
    room: &'a mut [Run],
) -> NamedView<'a>
    ensures { result.view.now ≡ view.entry.now }
{
    let half = room.len() / 2;
    let (name_room, list_room) = room.split_at_mut(half);
    let names = put_offsets(view, walk, false, name_room);
    let lists = put_offsets(view, walk, true, list_room);
    NamedView::with_lists(view, &mut name_room[..names], &mut list_room[..lists])
}

/// Steps over imports in a list.
#[derive(Clone, Copy)]
pub struct InLibrary;

impl<'a> Steps<NearImports<'a>, Import> for InLibrary {
    ghost steps = { λ s. Numbered result_number StepsNearImports };

    #[inline(always)]
    fn step(&self, near: &mut NearImports<'a>) -> std::result::Result<Option<Import>, u32> {
        let NearImports {
            names,
            mut walk,
            mut hints,
            ..
        } = *near;
        let given = step_near(&names, &mut walk, &mut hints);
        *near = NearImports { names, walk, hints };
        numbered(given)
    }
}

impl<'a> Steps<ImportWalk, Import> for NamedView<'a> {
    ghost steps = { λ s. Numbered result_number (StepsKeptImports s.view.now) };

    fn step(&self, walk: &mut ImportWalk) -> std::result::Result<Option<Import>, u32> {
        numbered(step_import(self, walk))
    }
}

/// Lists the imports of a walk that keeps no sections.
#[tactic(auto, using(calls_base::proofs::NearMaps::no_window))]
fn list_near(
    names: &NamedView<'_>,
    walk: &mut ImportWalk,
    entries: &mut [Import],
    written: &mut u64,
) -> u32
    requires { walk.old.kept ≡ no_sections }
    ensures { HandsOutList (Numbered result_number (StepsKeptImports names.now.view.now))
        result walk.old walk.new entries.old entries.new written.old written.new }
{
    let mut near = NearImports {
        names: *names,
        walk: walk.imports,
        hints: NO_WINDOW,
    };
    let number = hand_out_list(&InLibrary, &mut near, entries, written);
    walk.imports = near.walk;
    number
}

/// Lists the imports of a walk step by step: one, for which no window is made, and those of a walk that keeps sections.
pub fn list_imports(
    names: &NamedView<'_>,
    walk: &mut ImportWalk,
    entries: &mut [Import],
    written: &mut u64,
) -> u32
    ensures { HandsOutList (Numbered result_number (StepsKeptImports names.now.view.now))
        result walk.old walk.new entries.old entries.new written.old written.new }
{
    if entries.len() > 1 && keeps_none(&walk.kept) {
        return list_near(names, walk, entries, written);
    }
    hand_out_list(names, walk, entries, written)
}
