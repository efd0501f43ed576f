//! Exports. The export directory has three tables: the RVAs of what is exported, the RVAs of names, and for each name
//! the index of its RVA in the first table. An RVA inside the export directory is that of a forwarder's text, such as
//! `NTDLL.RtlAllocateHeap`: the name of another DLL's export. A walk returns the exports that have a name; `export_addresses` has
//! all of them by their index.
//! https://learn.microsoft.com/windows/win32/debug/pe-format#the-edata-section-image-only

ghost use Rattle.std.specs.Prelude.{◌≡◌, ◌+◌, ◌*◌, ◌/◌, ◌≤◌, length, None, if◌then◌else◌, Ok};
ghost use Rattle.pe_core.specs.Exports.{export_data_at, export_data_view};
ghost use Rattle.pe_core.specs.Refusals.{ReturnsAs, answer_of};
ghost use Rattle.calls_base.specs.Images.{export_directory};
ghost use Rattle.calls_directories.specs.Exports.{FindsNext, StepsExports, export_table, tables_at, tables_or_short, reported_entry, view_of, walk_over};
ghost use Rattle.calls_base.specs.Ranges.{text_from, or_no_bytes};
ghost use Rattle.calls_base.specs.KeptSections.{ChangeNothing, map_kept, no_sections};
ghost use Rattle.calls_directories.specs.KeptWalks.{StepsKeptExports, StepsNearExports};
ghost use Rattle.calls_base.specs.Views.{map_of};
ghost use Rattle.pe_core.specs.ExportAddresses.{addresses_view};
ghost use Rattle.calls_directories.specs.ExportAddresses.{exported_at, exported_in};
ghost use Rattle.calls_base.specs.HandsOut.{result_number};
ghost use Rattle.calls_base.specs.Lists.{HandsOutList, Numbered, StepsByIndex};
ghost use Rattle.calls_base.specs.NearMaps.{IsWindow};

use crate::names::export_addresses::{
    AddressTable, Exported, addresses_in, exported_at, exported_in,
};
use crate::names::export_texts::{put_text_offsets, texts_cost_much};
use crate::names::near_exports::{NO_WINDOWS, NearExports, find_near};
use calls_base::image::{EXPORT_TABLE, directory, is_absent};
use calls_base::kept_sections::{KeptSections, keeps_none, keeps_sections, kept_after, map_kept};
use calls_base::lists::{Steps, hand_out_list, next_index, numbered};
use calls_base::named_view::NamedView;
use calls_base::near_map::{Window, map_in, window_at};
use calls_base::ranges::{NO_BYTES, Range, range_from, slice_of};
use calls_base::text_runs::{Run, end_of_next};
use calls_base::view::{View, map_by};
use pe_core::{
    DataDirectory, ExportAddresses, ExportData, Result, lies_in, read_u32, u16_at, u32_at,
};

/// Where a walk over the exports of an image stands: the tables of its export directory, and the index of the next name.
#[repr(C)]
#[derive(Clone, Copy)]
pub struct Exports {
    /// RVAs of names, 4 bytes each.
    pub names: Range,
    /// For each name the index of its RVA in `addresses`, 2 bytes each.
    pub ordinals: Range,
    /// RVAs of what is exported, 4 bytes each.
    pub addresses: Range,
    /// Index of the next name.
    pub next: u64,
    /// The export directory: an RVA inside it is that of a forwarder's text.
    pub directory: DataDirectory,
}

/// A walk over exports.
#[repr(C)]
#[derive(Clone, Copy)]
pub struct ExportWalk {
    /// Where it stands.
    pub exports: Exports,
    /// The sections of its last RVAs.
    pub kept: KeptSections,
}

/// An export that has a name.
#[repr(C)]
#[derive(Clone, Copy)]
pub struct Export {
    /// UTF-8, without its final zero.
    pub name: Range,
    /// A forwarder's text: UTF-8, without its final zero. Empty where `is_forwarder` is 0, or where no text is there.
    pub forwarder: Range,
    /// File offset of what is exported, or of the forwarder's text; 0 where `has_offset` is 0.
    pub offset: u64,
    /// RVA of what is exported, or of the forwarder's text.
    pub rva: u32,
    /// 1 where a section maps the RVA, else 0.
    pub has_offset: u32,
    /// Index in the address table: plus the ordinal base it is the ordinal.
    pub index: u32,
    /// 1 where the RVA lies in the export directory, else 0.
    pub is_forwarder: u32,
}

/// The range of a table of so many bytes at an RVA. An empty table needs no mapped RVA.
pub fn export_table(view: &View, rva: u32, size: u64) -> Range
    ensures { result
        ≡ export_table (map_of view.now) rva size }
{
    if size == 0 {
        return NO_BYTES;
    }
    range_from(size, map_by(view, rva))
}

fn walk_over(view: &View, export_data: &ExportData) -> Exports
    ensures { result ≡ walk_over (map_of view.now) (export_directory view.now.image.now)
        (export_data_view export_data.now) }
{
    let fields = &export_data.directory;
    let names = u64::from(fields.number_of_name_pointers);
    let addresses = u64::from(fields.address_table_entries);
    Exports {
        names: export_table(view, fields.name_pointer_rva, 4 * names),
        ordinals: export_table(view, fields.ordinal_table_rva, 2 * names),
        addresses: export_table(view, fields.address_table_rva, 4 * addresses),
        next: 0,
        directory: directory(view.image, EXPORT_TABLE),
    }
}

/// The export directory of an image, whose entry among the directories this is.
pub fn export_data<'a>(view: &View<'a>, directory: DataDirectory) -> Result<ExportData<'a>>
    ensures { ReturnsAs export_data_view result
        (export_data_at (map_of view.now)
        view.now.bytes.now directory.virtual_address) }
{
    ExportData::parse_with_map(view.bytes, directory, view)
}

/// The tables of exports, where a walk starts, if the export directory is not absent.
#[tactic(auto, unfolding(crate::specs::Exports::tables_at))]
pub fn tables_at(view: &View) -> Result<Option<Exports>>
    ensures { answer_of result ≡ tables_at view.now.bytes.now view.now.image.now
        (map_of view.now) }
{
    let directory = directory(view.image, EXPORT_TABLE);
    if is_absent(directory) {
        return Ok(None);
    }
    let export_data = export_data(view, directory)?;
    Ok(Some(walk_over(view, &export_data)))
}

/// The three tables of a walk.
#[derive(Clone, Copy)]
pub struct Tables<'a> {
    pub names: &'a [u8],
    pub ordinals: &'a [u8],
    pub addresses: &'a [u8],
}

/// The range of a forwarder's text, empty where no text is there. Out of line, since few exports are forwarders.
#[cold]
#[inline(never)]
fn forwarder_at(names: &NamedView<'_>, offset: Option<usize>) -> Range
    ensures { result ≡ or_no_bytes (text_from names.now.view.now.bytes.now offset) }
{
    names.range_at(offset).unwrap_or(NO_BYTES)
}

/// The range of the text at an offset if an export is a forwarder, else the empty one.
#[inline(always)]
pub fn forwarder_if(is_forwarder: bool, names: &NamedView<'_>, offset: Option<usize>) -> Range
    ensures { result ≡ or_no_bytes
        (if is_forwarder then text_from names.now.view.now.bytes.now offset else None) }
{
    if is_forwarder {
        forwarder_at(names, offset)
    } else {
        NO_BYTES
    }
}

/// The export of entry `i` of the name table, if its name is mapped and is text, and its ordinal is in the address
/// table. Which are forwarders depends on the export directory.
fn reported_entry(
    names: &NamedView<'_>,
    kept: KeptSections,
    tables: &Tables<'_>,
    directory: DataDirectory,
    i: usize,
) -> Option<Export>
    requires { 4 * i + 4 ≤ length tables.now.names.now }
    ensures { result ≡ reported_entry (map_kept names.now.view.now kept)
        names.now.view.now.bytes.now directory (view_of tables.now) i }
{
    let name_rva = read_u32(tables.names, 4 * i);
    let offset = map_kept(names.view, kept, u64::from(name_rva))?;
    let name = names.text_at(offset)?;
    let ordinal = u16_at(tables.ordinals, 2 * i).ok()?;
    let rva = u32_at(tables.addresses, 4 * usize::from(ordinal)).ok()?;
    let exported = map_kept(names.view, kept, u64::from(rva));
    let is_forwarder = lies_in(directory, rva);
    Some(Export {
        name: Range {
            offset: offset as u64,
            length: name.len() as u64,
        },
        forwarder: forwarder_if(is_forwarder, names, exported),
        offset: exported.unwrap_or(0) as u64,
        rva,
        has_offset: u32::from(exported.is_some()),
        index: u32::from(ordinal),
        is_forwarder: u32::from(is_forwarder),
    })
}

/// The first entry of the name table, from `from` on, that has an export, and the index after it.
fn find_next(
    names: &NamedView<'_>,
    kept: KeptSections,
    tables: &Tables<'_>,
    directory: DataDirectory,
    from: usize,
) -> Option<(Export, u64)>
    ensures { FindsNext (reported_entry (map_kept names.now.view.now kept)
        names.now.view.now.bytes.now directory (view_of tables.now))
        from (length tables.now.names.now / 4) result }
{
    for i in from..tables.names.len() / 4 {
        if let Some(export) = reported_entry(names, kept, tables, directory, i) {
            return Some((export, i as u64 + 1));
        }
    }
    None
}

/// The tables of a walk. `Short` where one is not inside the bytes.
pub fn tables_of<'a>(bytes: &'a [u8], walk: &Exports) -> Result<Tables<'a>>
    ensures { ReturnsAs view_of result (tables_or_short bytes.entry.now walk.now) }
{
    Ok(Tables {
        names: slice_of(bytes, &walk.names)?,
        ordinals: slice_of(bytes, &walk.ordinals)?,
        addresses: slice_of(bytes, &walk.addresses)?,
    })
}

/// One step of a walk, by these sections first.
fn step(names: &NamedView<'_>, kept: KeptSections, walk: &mut Exports) -> Result<Option<Export>>
    ensures { StepsExports (map_kept names.now.view.now kept)
        names.now.view.now.bytes.now walk.old (answer_of result) walk.new }
{
    let count = walk.names.length / 4;
    if count <= walk.next {
        return Ok(None);
    }
    let tables = match tables_of(names.view.bytes, walk) {
        Ok(tables) => tables,
        Err(error) => {
            // Without names the walk is over.
            walk.names = NO_BYTES;
            return Err(error);
        }
    };
    match find_next(names, kept, &tables, walk.directory, walk.next as usize) {
        Some((export, next)) => {
            walk.next = next;
            Ok(Some(export))
        }
        None => {
            walk.next = count;
            Ok(None)
        }
    }
}

/// The RVA of the name of the export before the next, if the table has it.
fn name_rva_before(view: &View, walk: &Exports) -> Option<u32> {
    let names = slice_of(view.bytes, &walk.names).ok()?;
    let entry = (walk.next as usize).saturating_sub(1);
    u32_at(names, entry.saturating_mul(4)).ok()
}

/// What a walk keeps after an export: the sections of what is exported and of its name.
fn kept_after_export(
    view: &View,
    kept: KeptSections,
    walk: &Exports,
    export: &Export,
) -> KeptSections
    ensures { ChangeNothing view.now kept → ChangeNothing view.now result }
{
    if !keeps_sections(view) {
        return kept;
    }
    let exported = kept_after(view, kept, export.rva);
    match name_rva_before(view, walk) {
        Some(name_rva) => kept_after(view, exported, name_rva),
        None => exported,
    }
}

/// One step of a walk.
pub fn step_export(names: &NamedView<'_>, walk: &mut ExportWalk) -> Result<Option<Export>>
    ensures { StepsKeptExports names.now.view.now walk.old (answer_of result) walk.new }
{
    let given = step(names, walk.kept, &mut walk.exports);
    if let Ok(Some(export)) = &given {
        walk.kept = kept_after_export(names.view, walk.kept, &walk.exports, export);
    }
    given
}

/// One step of a walk whose tables are inside the bytes.
#[inline(always)]
fn next_near(near: &mut NearExports<'_>) -> Option<Export>
    ensures { StepsNearExports near.old (Ok result) near.new }
{
    let NearExports {
        names,
        tables,
        walk,
        mut windows,
        ..
    } = *near;
    let count = walk.names.length / 4;
    if count <= walk.next {
        return None;
    }
    let (export, next) = match find_near(
        &names,
        &tables,
        walk.directory,
        walk.next as usize,
        &mut windows,
    ) {
        Some((export, next)) => (Some(export), next),
        None => (None, count),
    };
    *near = NearExports {
        names,
        tables,
        walk: Exports { next, ..walk },
        windows,
    };
    export
}

/// Steps over exports in a list.
#[derive(Clone, Copy)]
pub struct InTables;

impl<'a> Steps<NearExports<'a>, Export> for InTables {
    ghost steps = { λ s. Numbered result_number StepsNearExports };

    fn step(&self, near: &mut NearExports<'a>) -> std::result::Result<Option<Export>, u32> {
        Ok(next_near(near))
    }
}

/// Lists the exports of a walk that keeps no sections, with these tables.
#[inline(always)]
fn list_near(
    names: &NamedView<'_>,
    tables: &Tables<'_>,
    walk: &mut ExportWalk,
    entries: &mut [Export],
    written: &mut u64,
) -> u32
    requires tables { tables_or_short names.now.view.now.bytes.now walk.old.exports
        ≡ Ok (view_of tables.now) }
    requires none { walk.old.kept ≡ no_sections }
    ensures { HandsOutList (Numbered result_number (StepsKeptExports names.now.view.now))
        result walk.old walk.new entries.old entries.new written.old written.new }
{
    let mut near = NearExports {
        names: *names,
        tables: *tables,
        walk: walk.exports,
        windows: NO_WINDOWS,
    };
    let number = hand_out_list(&InTables, &mut near, entries, written);
    walk.exports = near.walk;
    number
}

impl<'a> Steps<ExportWalk, Export> for NamedView<'a> {
    ghost steps = { λ s. Numbered result_number (StepsKeptExports s.view.now) };

    fn step(&self, walk: &mut ExportWalk) -> std::result::Result<Option<Export>, u32> {
        numbered(step_export(self, walk))
    }
}

/// Lists the exports of a walk step by step: one, which no section near it makes faster, those of a walk that keeps sections, and those
/// of a walk whose tables are not inside the bytes, whose first step is refused.
fn list_steps(
    names: &NamedView<'_>,
    walk: &mut ExportWalk,
    entries: &mut [Export],
    written: &mut u64,
) -> u32
    ensures { HandsOutList (Numbered result_number (StepsKeptExports names.now.view.now))
        result walk.old walk.new entries.old entries.new written.old written.new }
{
    hand_out_list(names, walk, entries, written)
}

/// Lists the exports of a walk.
pub fn list_exports(
    names: &NamedView<'_>,
    walk: &mut ExportWalk,
    entries: &mut [Export],
    written: &mut u64,
) -> u32
    ensures { HandsOutList (Numbered result_number (StepsKeptExports names.now.view.now))
        result walk.old walk.new entries.old entries.new written.old written.new }
{
    if entries.len() > 1 && keeps_none(&walk.kept) {
        if let Ok(tables) = tables_of(names.view.bytes, &walk.exports) {
            return list_near(names, &tables, walk, entries, written);
        }
    }
    list_steps(names, walk, entries, written)
}

/// An image of which the texts of the next exports are read together, if they cost much else.
pub fn texts_of<'a>(view: &'a View<'a>, walk: &Exports, runs: &'a mut [Run]) -> NamedView<'a>
    ensures { result.view.now ≡ view.entry.now }
{
    if runs.is_empty() || !texts_cost_much(view, walk, runs.len()) {
        return NamedView::alone(view);
    }
    let count = put_text_offsets(view, walk, runs);
    NamedView::together(view, &mut runs[..count])
}

/// Steps over the entries of an address table.
#[derive(Clone, Copy)]
pub struct Addresses<'a, 'b> {
    names: NamedView<'a>,
    table: &'b AddressTable,
}

impl<'a, 'b> Steps<u64, Exported> for Addresses<'a, 'b> {
    ghost steps = { λ s. Numbered result_number (StepsByIndex (exported_at
        (map_of s.names.view.now) s.names.view.now.bytes.now s.table.now)) };

    fn step(&self, index: &mut u64) -> std::result::Result<Option<Exported>, u32> {
        next_index(exported_at(&self.names, self.table, *index), index)
    }
}

/// Steps over the entries of an address table whose bytes are there.
#[derive(Clone, Copy)]
pub struct InAddresses<'a> {
    names: NamedView<'a>,
    table: ExportAddresses<'a>,
    /// The RVAs near the start of the export directory, in which the texts of forwarders lie.
    near: Window,
    ghost is_near: { IsWindow (map_of names.view.now) near },
}

impl<'a> Steps<u64, Exported> for InAddresses<'a> {
    ghost steps = { λ s. Numbered result_number (StepsByIndex (λ i. Ok (exported_in
        (map_of s.names.view.now) s.names.view.now.bytes.now (addresses_view s.table) i))) };

    #[inline(always)]
    fn step(&self, index: &mut u64) -> std::result::Result<Option<Exported>, u32> {
        match exported_in(&self.names, &self.near, &self.table, *index) {
            Some(exported) => {
                *index += 1;
                Ok(Some(exported))
            }
            None => Ok(None),
        }
    }
}

/// Lists the entries of an address table whose bytes are there.
#[inline(always)]
fn list_inside(
    addresses: &InAddresses<'_>,
    next: &mut u64,
    entries: &mut [Exported],
    written: &mut u64,
) -> u32
    ensures { HandsOutList (Numbered result_number (StepsByIndex (λ i. Ok (exported_in
        (map_of addresses.now.names.view.now) addresses.now.names.view.now.bytes.now
        (addresses_view addresses.now.table) i))))
        result next.old next.new entries.old entries.new written.old written.new }
{
    let mut index = *next;
    let number = hand_out_list(addresses, &mut index, entries, written);
    *next = index;
    number
}

/// Lists the entries of a table step by step: one, or those of a table that is not inside the bytes, whose first step is refused.
fn list_addresses_in_steps(
    addresses: &Addresses<'_, '_>,
    next: &mut u64,
    entries: &mut [Exported],
    written: &mut u64,
) -> u32
    ensures { HandsOutList (Numbered result_number (StepsByIndex (exported_at
        (map_of addresses.now.names.view.now) addresses.now.names.view.now.bytes.now
        addresses.now.table.now)))
        result next.old next.new entries.old entries.new written.old written.new }
{
    hand_out_list(addresses, next, entries, written)
}

/// Lists the entries of an address table from an index on.
pub fn list_addresses(
    names: &NamedView<'_>,
    table: &AddressTable,
    next: &mut u64,
    entries: &mut [Exported],
    written: &mut u64,
) -> u32
    ensures { HandsOutList (Numbered result_number (StepsByIndex (exported_at
        (map_of names.now.view.now) names.now.view.now.bytes.now table.now)))
        result next.old next.new entries.old entries.new written.old written.new }
{
    let names = *names;
    if entries.len() <= 1 {
        return list_addresses_in_steps(&Addresses { names, table }, next, entries, written);
    }
    match slice_of(names.view.bytes, &table.addresses) {
        Ok(addresses) => {
            let near = window_at(names.view, table.directory.virtual_address);
            let table = addresses_in(table, addresses);
            let addresses = InAddresses { names, table, near };
            list_inside(&addresses, next, entries, written)
        }
        Err(_) => list_addresses_in_steps(&Addresses { names, table }, next, entries, written),
    }
}

/// Writes the offsets of the texts of the forwarders among the next entries, of so many at most, to a room, as starts, as far as it
/// has room, and returns how many they are.
fn put_forwarders(
    view: &View,
    table: &AddressTable,
    next: u64,
    most: usize,
    room: &mut [Run],
) -> usize
    ensures { result ≤ length room.new }
{
    let mut count = 0;
    if room.is_empty() {
        return count;
    }
    let Ok(addresses) = slice_of(view.bytes, &table.addresses) else {
        return count;
    };
    let near = window_at(view, table.directory.virtual_address);
    for i in next as usize..end_of_next(next, most, addresses.len() / 4) {
        if count == room.len() {
            break;
        }
        let rva = read_u32(addresses, 4 * i);
        if !lies_in(table.directory, rva) {
            continue;
        }
        if let Some(offset) = map_in(view, rva, &near) {
            room[count] = Run::at(offset);
            count += 1;
        }
    }
    count
}

/// An image of which the texts of the forwarders among the next entries, of so many at most, are read together.
pub fn named_forwarders<'a>(
    view: &'a View<'a>,
    table: &AddressTable,
    next: u64,
    most: usize,
    room: &'a mut [Run],
) -> NamedView<'a>
    ensures { result.view.now ≡ view.entry.now }
{
    if room.is_empty() {
        return NamedView::alone(view);
    }
    let count = put_forwarders(view, table, next, most, room);
    NamedView::together(view, &mut room[..count])
}
