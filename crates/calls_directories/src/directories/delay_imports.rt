//! Delay imports: DLLs that are loaded when one of their functions is called first. An entry of 32 bytes for each DLL leads to
//! its name, and to a table of what is imported of it, by name or by ordinal. One walk steps over the DLLs, another over what
//! is imported of each.
//! https://learn.microsoft.com/windows/win32/debug/pe-format#delay-load-import-tables-image-only

ghost use Rattle.std.specs.Prelude.{◌≡◌, ◌≤◌, length};
ghost use Rattle.pe_directories.specs.DelayImports.{ordinal_flag};
ghost use Rattle.pe_directories.specs.DirectoryRefusals.{directory_answer};
ghost use Rattle.calls_directories.specs.DelayImports.{address_in, address_offset, library_of, dll_range, first_library_in, first_function_in, function_of, functions_of, name_range, named_at, ordinal_in, rva_of};
ghost use Rattle.pe_directories.specs.ImageParts.{size_of_va};
ghost use Rattle.calls_base.specs.FailureNumbers.{number_there};
ghost use Rattle.calls_base.specs.DirectoryResults.{directory_number};
ghost use Rattle.calls_base.specs.Directories.{left_after, step_of};
ghost use Rattle.calls_base.specs.NearMaps.{IsWindow};
ghost use Rattle.calls_base.specs.KeptSections.{ChangeNothing, map_kept};
ghost use Rattle.calls_directories.specs.KeptWalks.{StepsKeptDelayLibraries, StepsKeptFunctions};
ghost use Rattle.calls_base.specs.Views.{map_of};
ghost use Rattle.calls_base.specs.Lists.{HandsOutList, Numbered};

use calls_base::directories::{Result, range_left};
use calls_base::image::Image;
use calls_base::kept_sections::{KeptSections, keeps_sections, kept_after, map_kept};
use calls_base::lists::{Steps, hand_out_list};
use calls_base::named_view::NamedView;
use calls_base::near_map::{NO_WINDOW, Window, map_near};
use calls_base::ranges::{NO_BYTES, Range, bytes_there, slice_of};
use calls_base::results::number_of_directory;
use calls_base::text_runs::Run;
use calls_base::view::View;
use pe_core::{Error, Reason, lookup_number, lookup_size, require_bytes, u16_at};
use pe_directories::{DelayImport, DelayImports, DirectoryError, VaTable};

/// The size of the hint before a function's name in bytes.
const SIZE_OF_HINT: usize = 2;

/// Where a walk over what is imported of a DLL stands.
#[repr(C)]
#[derive(Clone, Copy)]
pub struct DelayedFunctions {
    /// The table from its next number on, up to the end of the bytes: numbers of 8 bytes in PE32+, else of 4.
    pub left: Range,
    /// The attributes of the DLL's entry.
    pub attributes: u32,
    /// 0.
    pub spare: u32,
}

/// A walk over the DLLs of the delay import directory.
#[repr(C)]
#[derive(Clone, Copy)]
pub struct DelayWalk {
    /// The entries that are left.
    pub entries: Range,
    /// The sections of its last RVAs.
    pub kept: KeptSections,
}

/// A walk over what is imported of a DLL.
#[repr(C)]
#[derive(Clone, Copy)]
pub struct DelayedFunctionWalk {
    /// Where it stands.
    pub functions: DelayedFunctions,
    /// The sections of its last RVAs.
    pub kept: KeptSections,
}

/// A DLL that is loaded when one of its functions is called first.
#[repr(C)]
#[derive(Clone, Copy)]
pub struct DelayLibrary {
    /// The DLL's name: UTF-8, without its final zero.
    pub name: Range,
    /// Where a walk over what is imported of it starts, for `DelayedFunctionWalk`.
    pub functions: DelayedFunctions,
    /// The entry of the directory.
    pub descriptor: DelayImport,
}

/// What is imported of a DLL.
#[repr(C)]
#[derive(Clone, Copy)]
pub struct DelayedFunction {
    /// UTF-8, without its final zero. Empty where `has_name` is 0.
    pub name: Range,
    /// The ordinal, or the hint for a name: an index into the DLL's table of names.
    pub ordinal: u32,
    /// 1 for an import by name, 0 for one by ordinal.
    pub has_name: u32,
}

/// The RVA of an address in an entry with these attributes.
fn rva_of(image: &Image, attributes: u32, address: u64) -> Result<u64>
    ensures { directory_answer (λ x. x) result ≡ rva_of image.now.base attributes address }
{
    if attributes % 2 == 1 {
        return Ok(address);
    }
    if address < image.base {
        return Err(DirectoryError::VaBelowBase(address));
    }
    Ok(address - image.base)
}

/// The file offset of such an address.
#[tactic(auto, unfolding(crate::specs::DelayImports::address_offset))]
pub fn address_offset(
    view: &View,
    kept: KeptSections,
    attributes: u32,
    address: u64,
) -> Result<usize>
    ensures { directory_answer (λ p. p) result ≡ address_offset (map_kept view.now kept)
        view.now.image.now.base attributes address }
{
    let rva = rva_of(view.image, attributes, address)?;
    match map_kept(view, kept, rva) {
        Some(offset) => Ok(offset),
        None => Err(DirectoryError::Image(Error::Malformed(Reason::Unmapped(rva)))),
    }
}

/// The file offset of an address for the room of names, by the window of the last one: none where `address_offset` refuses it. An
/// RVA of more than 32 bits has none either, which costs the steps a name that is read by itself.
pub fn offset_near(view: &View, attributes: u32, address: u64, near: &mut Window) -> Option<usize>
    requires { IsWindow (map_of view.now) near.old }
    ensures { IsWindow (map_of view.now) near.new }
{
    let rva = rva_of(view.image, attributes, address).ok()?;
    map_near(view, u32::try_from(rva).ok()?, near)
}

/// The range of the name at an offset.
#[tactic(auto, unfolding(crate::specs::DelayImports::name_range))]
fn name_range(names: &NamedView<'_>, offset: usize) -> Result<Range>
    ensures { directory_answer (λ r. r) result ≡ name_range names.now.view.now.bytes.now offset }
{
    match names.text_at(offset) {
        Some(name) => Ok(Range {
            offset: offset as u64,
            length: name.len() as u64,
        }),
        None => Err(DirectoryError::DelayImportName(offset)),
    }
}

/// The range of the name of an entry's DLL.
fn dll_range(names: &NamedView<'_>, kept: KeptSections, entry: &DelayImport) -> Result<Range>
    ensures { directory_answer (λ r. r) result ≡ dll_range (map_kept names.now.view.now kept)
        names.now.view.now.bytes.now names.now.view.now.image.now entry.now }
{
    let offset = address_offset(names.view, kept, entry.attributes, u64::from(entry.name))?;
    name_range(names, offset)
}

/// Where a walk over what is imported of an entry's DLL starts.
fn functions_of(view: &View, kept: KeptSections, entry: &DelayImport) -> Result<DelayedFunctions>
    ensures { directory_answer (λ w. w) result ≡ functions_of (map_kept view.now kept)
        view.now.bytes.now view.now.image.now entry.now }
{
    let table = u64::from(entry.import_name_table);
    let offset = address_offset(view, kept, entry.attributes, table)?;
    Ok(DelayedFunctions {
        left: Range {
            offset: offset as u64,
            length: view.bytes.len().saturating_sub(offset) as u64,
        },
        attributes: entry.attributes,
        spare: 0,
    })
}

/// An entry as callers get it.
fn library_of(names: &NamedView<'_>, kept: KeptSections, entry: DelayImport) -> Result<DelayLibrary>
    ensures { directory_answer (λ x. x) result ≡ library_of (map_kept names.now.view.now kept)
        names.now.view.now.bytes.now names.now.view.now.image.now entry }
{
    Ok(DelayLibrary {
        name: dll_range(names, kept, &entry)?,
        functions: functions_of(names.view, kept, &entry)?,
        descriptor: entry,
    })
}

/// The next DLL of a walk, by these sections first. It is over after an error.
fn next_library(
    names: &NamedView<'_>,
    kept: KeptSections,
    walk: &mut Range,
) -> Result<Option<DelayLibrary>>
    ensures library { directory_answer (λ x. x) result ≡ step_of (λ x. x)
        (first_library_in (map_kept names.now.view.now kept)
        names.now.view.now.bytes.now names.now.view.now.image.now walk.old) }
    ensures walk { walk.new ≡ left_after walk.old (first_library_in (map_kept names.now.view.now kept)
        names.now.view.now.bytes.now names.now.view.now.image.now walk.old) }
{
    let range = *walk;
    *walk = NO_BYTES;
    let mut entries = DelayImports::new(slice_of(names.view.bytes, &range)?);
    let Some(entry) = entries.next() else {
        *walk = range;
        return Ok(None);
    };
    let library = library_of(names, kept, entry?)?;
    *walk = range_left(range, entries.rest());
    Ok(Some(library))
}

/// Writes the offsets of the names of the next DLLs to a room, as starts, of as many as it has room for, and returns how many they
/// are.
#[tactic(auto, using(calls_base::proofs::NearMaps::no_window))]
pub fn put_dll_names(view: &View, walk: &Range, room: &mut [Run]) -> usize
    ensures { result ≤ length room.new }
{
    let mut count = 0;
    let Ok(bytes) = slice_of(view.bytes, walk) else {
        return count;
    };
    let mut near = NO_WINDOW;
    let mut entries = DelayImports::new(bytes);
    for i in 0..room.len() {
        let Some(Ok(entry)) = entries.next() else {
            break;
        };
        let Some(offset) = offset_near(view, entry.attributes, u64::from(entry.name), &mut near)
        else {
            break;
        };
        room[i] = Run::at(offset);
        count = i + 1;
    }
    count
}

/// What a walk keeps after an address in an entry with these attributes.
fn kept_after_address(
    view: &View,
    kept: KeptSections,
    attributes: u32,
    address: u64,
) -> KeptSections
    ensures { ChangeNothing view.now kept → ChangeNothing view.now result }
{
    let Ok(rva) = rva_of(view.image, attributes, address) else {
        return kept;
    };
    match u32::try_from(rva) {
        Ok(rva) => kept_after(view, kept, rva),
        Err(_) => kept,
    }
}

/// What a walk keeps after a DLL: the sections of its name and of its table.
pub fn kept_after_library(view: &View, kept: KeptSections, entry: &DelayImport) -> KeptSections
    ensures { ChangeNothing view.now kept → ChangeNothing view.now result }
{
    if !keeps_sections(view) {
        return kept;
    }
    let kept = kept_after_address(view, kept, entry.attributes, u64::from(entry.name));
    let table = u64::from(entry.import_name_table);
    kept_after_address(view, kept, entry.attributes, table)
}

/// What a walk keeps after a step that returns this.
pub fn kept_after_library_step(
    view: &View,
    kept: KeptSections,
    given: &Result<Option<DelayLibrary>>,
) -> KeptSections
    ensures { ChangeNothing view.now kept → ChangeNothing view.now result }
{
    match given {
        Ok(Some(library)) => kept_after_library(view, kept, &library.descriptor),
        _ => kept,
    }
}

/// One step of a walk that keeps sections which change no offset.
pub fn next_library_kept(
    names: &NamedView<'_>,
    kept: KeptSections,
    walk: &mut Range,
) -> Result<Option<DelayLibrary>>
    requires { ChangeNothing names.now.view.now kept }
    ensures library { directory_answer (λ x. x) result ≡ step_of (λ x. x)
        (first_library_in (map_of names.now.view.now)
        names.now.view.now.bytes.now names.now.view.now.image.now walk.old) }
    ensures walk { walk.new ≡ left_after walk.old (first_library_in (map_of names.now.view.now)
        names.now.view.now.bytes.now names.now.view.now.image.now walk.old) }
{
    next_library(names, kept, walk)
}

/// One step of a walk.
pub fn step_dll(names: &NamedView<'_>, walk: &mut DelayWalk) -> Result<Option<DelayLibrary>>
    ensures { StepsKeptDelayLibraries names.now.view.now walk.old
        (directory_answer (λ x. x) result) walk.new }
{
    let given = next_library(names, walk.kept, &mut walk.entries);
    if let Ok(Some(library)) = &given {
        walk.kept = kept_after_library(names.view, walk.kept, &library.descriptor);
    }
    given
}

/// The least number of a table that is an ordinal: its highest bit is set.
fn ordinal_flag(is_64: bool) -> u64
    ensures { result ≡ ordinal_flag is_64 }
{
    if is_64 { 1 << 63 } else { 1 << 31 }
}

/// The ordinal that a number of the table is: its low 16 bits, if its highest bit is set.
fn ordinal_in(lookup: u64, is_64: bool) -> Option<u32>
    ensures { result ≡ ordinal_in is_64 lookup }
{
    if lookup < ordinal_flag(is_64) {
        return None;
    }
    Some((lookup % (1 << 16)) as u32)
}

/// The address of a hint that a number of the table leads to.
pub fn address_in(is_64: bool, attributes: u32, lookup: u64) -> u64
    ensures { result ≡ address_in is_64 attributes lookup }
{
    if attributes % 2 == 1 {
        lookup % (1 << 31)
    } else {
        lookup % ordinal_flag(is_64)
    }
}

/// The import by name whose hint is at an offset.
#[tactic(auto, unfolding(crate::specs::DelayImports::named_at))]
fn named_at(names: &NamedView<'_>, offset: usize) -> Result<DelayedFunction>
    ensures { directory_answer (λ x. x) result ≡ named_at names.now.view.now.bytes.now offset }
{
    let hint = u16_at(names.view.bytes, offset)?;
    let name = name_range(names, offset + SIZE_OF_HINT)?;
    Ok(DelayedFunction {
        name,
        ordinal: u32::from(hint),
        has_name: 1,
    })
}

/// What a number of the table imports, as callers get it.
#[tactic(auto, unfolding(crate::specs::DelayImports::function_of))]
fn function_of(
    names: &NamedView<'_>,
    kept: KeptSections,
    attributes: u32,
    lookup: u64,
) -> Result<DelayedFunction>
    ensures { directory_answer (λ x. x) result ≡ function_of (map_kept names.now.view.now kept)
        names.now.view.now.bytes.now names.now.view.now.image.now attributes lookup }
{
    let is_64 = names.view.image.width == 64;
    if let Some(ordinal) = ordinal_in(lookup, is_64) {
        return Ok(DelayedFunction {
            name: NO_BYTES,
            ordinal,
            has_name: 0,
        });
    }
    let address = address_in(is_64, attributes, lookup);
    let offset = address_offset(names.view, kept, attributes, address)?;
    named_at(names, offset)
}

/// The next function of a walk, whose attributes and bytes left are these, by these sections first. It is over after an error.
fn next_function(
    names: &NamedView<'_>,
    kept: KeptSections,
    attributes: u32,
    left: &mut Range,
) -> Result<Option<DelayedFunction>>
    ensures function { directory_answer (λ x. x) result ≡ step_of (λ x. x)
        (first_function_in (map_kept names.now.view.now kept)
        names.now.view.now.bytes.now names.now.view.now.image.now attributes left.old) }
    ensures left { left.new ≡ left_after left.old
        (first_function_in (map_kept names.now.view.now kept)
        names.now.view.now.bytes.now names.now.view.now.image.now attributes left.old) }
{
    let range = *left;
    if range.offset == 0 && range.length == 0 {
        return Ok(None);
    }
    *left = NO_BYTES;
    let view = names.view;
    let mut table = VaTable::new(slice_of(view.bytes, &range)?, view.image.width == 64);
    let Some(lookup) = table.next() else {
        *left = range;
        return Ok(None);
    };
    let function = function_of(names, kept, attributes, lookup?)?;
    *left = range_left(range, table.rest());
    Ok(Some(function))
}

/// Writes the offsets of the names of what is imported next of a DLL to a room, as starts, of as many numbers of its table as the
/// room has entries, and returns how many they are.
pub fn put_function_names(
    view: &View,
    walk: &DelayedFunctions,
    near: &mut Window,
    room: &mut [Run],
) -> usize
    requires { IsWindow (map_of view.now) near.old }
    ensures count { result ≤ length room.new }
    ensures near { IsWindow (map_of view.now) near.new }
{
    let mut count = 0;
    let Ok(bytes) = slice_of(view.bytes, &walk.left) else {
        return count;
    };
    let is_64 = view.image.width == 64;
    let mut table = VaTable::new(bytes, is_64);
    for i in 0..room.len() {
        let Some(Ok(lookup)) = table.next() else {
            break;
        };
        // An ordinal, and a name that is not mapped, cost a run that is not asked for.
        let address = address_in(is_64, walk.attributes, lookup);
        let offset = offset_near(view, walk.attributes, address, near).unwrap_or(0);
        room[i] = Run::at(offset.saturating_add(SIZE_OF_HINT));
        count = i + 1;
    }
    count
}

/// What a walk keeps after the function that it was at: the section of its name.
fn kept_after_function(
    view: &View,
    kept: KeptSections,
    before: &DelayedFunctions,
    function: &DelayedFunction,
) -> KeptSections
    ensures { ChangeNothing view.now kept → ChangeNothing view.now result }
{
    if function.has_name == 0 || !keeps_sections(view) {
        return kept;
    }
    let is_64 = view.image.width == 64;
    let lookup = lookup_there(bytes_there(view.bytes, &before.left), is_64);
    let address = address_in(is_64, before.attributes, lookup);
    kept_after_address(view, kept, before.attributes, address)
}

/// The same after a step that returns this.
pub fn kept_after_function_step(
    view: &View,
    kept: KeptSections,
    before: &DelayedFunctions,
    given: &Result<Option<DelayedFunction>>,
) -> KeptSections
    ensures { ChangeNothing view.now kept → ChangeNothing view.now result }
{
    match given {
        Ok(Some(function)) => kept_after_function(view, kept, before, function),
        _ => kept,
    }
}

/// One step of a walk that keeps sections which change no offset.
pub fn next_function_kept(
    names: &NamedView<'_>,
    kept: KeptSections,
    attributes: u32,
    left: &mut Range,
) -> Result<Option<DelayedFunction>>
    requires { ChangeNothing names.now.view.now kept }
    ensures function { directory_answer (λ x. x) result ≡ step_of (λ x. x)
        (first_function_in (map_of names.now.view.now)
        names.now.view.now.bytes.now names.now.view.now.image.now attributes left.old) }
    ensures left { left.new ≡ left_after left.old
        (first_function_in (map_of names.now.view.now)
        names.now.view.now.bytes.now names.now.view.now.image.now attributes left.old) }
{
    next_function(names, kept, attributes, left)
}

/// One step of a walk over what is imported of a DLL.
pub fn step_function(
    names: &NamedView<'_>,
    walk: &mut DelayedFunctionWalk,
) -> Result<Option<DelayedFunction>>
    ensures { StepsKeptFunctions names.now.view.now walk.old
        (directory_answer (λ x. x) result) walk.new }
{
    let before = walk.functions;
    let given = next_function(
        names,
        walk.kept,
        before.attributes,
        &mut walk.functions.left,
    );
    if let Ok(Some(function)) = &given {
        walk.kept = kept_after_function(names.view, walk.kept, &before, function);
    }
    given
}

/// The number at the start of a table of what is imported, 0 where it is truncated.
pub fn lookup_there(table: &[u8], is_64: bool) -> u64
    ensures { result ≡ number_there table.now 0 (size_of_va is_64) }
{
    match require_bytes(table, 0, lookup_size(is_64)) {
        Ok(()) => lookup_number(table, 0, is_64),
        Err(_) => 0,
    }
}

impl<'a> Steps<DelayWalk, DelayLibrary> for NamedView<'a> {
    ghost steps = { λ s. Numbered directory_number (StepsKeptDelayLibraries s.view.now) };

    fn step(&self, walk: &mut DelayWalk) -> std::result::Result<Option<DelayLibrary>, u32> {
        match step_dll(self, walk) {
            Ok(library) => Ok(library),
            Err(error) => Err(number_of_directory(&error)),
        }
    }
}

/// Lists the DLLs of a walk.
pub fn list_libraries(
    names: &NamedView<'_>,
    walk: &mut DelayWalk,
    entries: &mut [DelayLibrary],
    written: &mut u64,
) -> u32
    ensures { HandsOutList (Numbered directory_number (StepsKeptDelayLibraries names.now.view.now))
        result walk.old walk.new entries.old entries.new written.old written.new }
{
    hand_out_list(names, walk, entries, written)
}

impl<'a> Steps<DelayedFunctionWalk, DelayedFunction> for NamedView<'a> {
    ghost steps = { λ s. Numbered directory_number (StepsKeptFunctions s.view.now) };

    fn step(
        &self,
        walk: &mut DelayedFunctionWalk,
    ) -> std::result::Result<Option<DelayedFunction>, u32> {
        match step_function(self, walk) {
            Ok(function) => Ok(function),
            Err(error) => Err(number_of_directory(&error)),
        }
    }
}

/// Lists the functions of a walk.
pub fn list_functions(
    names: &NamedView<'_>,
    walk: &mut DelayedFunctionWalk,
    entries: &mut [DelayedFunction],
    written: &mut u64,
) -> u32
    ensures { HandsOutList (Numbered directory_number (StepsKeptFunctions names.now.view.now))
        result walk.old walk.new entries.old entries.new written.old written.new }
{
    hand_out_list(names, walk, entries, written)
}
