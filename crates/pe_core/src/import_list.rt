//! The list of imports: what the lookup entries of the import directory's records name
//! ([layout](https://learn.microsoft.com/windows/win32/debug/pe-format#the-idata-section)). An entry is an ordinal, or
//! the RVA of a hint and a name. A caller passes the `ImportData` of the image to `Import::parse_with_opts`.

ghost use Rattle.std.specs.Prelude.{◌≡◌, ◌≤◌, ◌<◌, ◌-◌, ◌*◌, ◌/◌, ◌%◌, ◌^◌, ◌++◌, length, map, min, take, IfErr, IfOk, OnOk};
ghost use Rattle.std.specs.Option.{option_map};
ghost use Rattle.pe_core.specs.Gathered.{all_or_refusal};
ghost use Rattle.pe_core.specs.Imports.{first_imports, import_entries, import_entry_at, import_data_view, import_of, import_record_view, import_view, imports, entry_size};
ghost use Rattle.pe_core.specs.ImportSteps.{AreEntryNames, entry_view, hint_offset_of};
ghost use Rattle.pe_core.specs.Refusals.{IfMemory, ReturnsAs, ReturnsUnlessMemory};
ghost use Rattle.pe_core.specs.Rows.{each};
ghost use Rattle.pe_core.specs.SectionMap.{offset_in, section_map};
ghost use Rattle.pe_core.specs.SectionWindow.{IsWindow};
ghost use Rattle.pe_core.specs.Text.{text_at};

use crate::bytes::u16_at;
use crate::error::{Error, Reason, Result};
use crate::import::{ImportData, SyntheticImportDirectoryEntry, lookup_number, lookup_size};
use crate::many_texts::texts_at;
use crate::mapped_bytes::MappedBytes;
use crate::options::ParseOptions;
use crate::section_index::{SectionIndex, SectionMap};
use crate::section_table::SectionTable;
use crate::section_window::Window;
use std::alloc::{AllocError, Allocator};

/// The size of the hint before an import's name in bytes.
const SIZE_OF_HINT: usize = 2;

/// One import of an image.
#[derive(Debug, Drop)]
pub struct Import<'a> {
    /// The name of the function. `None` if it is imported by ordinal.
    pub name: Option<&'a str>,
    /// The name of the DLL.
    pub dll: &'a str,
    /// The ordinal, or the hint before the name: an index into the DLL's name table, where the loader looks first.
    pub ordinal: u16,
    /// The RVA of the entry of the address table that the loader overwrites with the function's virtual address.
    pub rva: u64,
}

/// A lookup entry, with what its import takes from the record.
#[derive(Clone, Copy)]
struct Entry<'a> {
    dll: &'a str,
    entry: u64,
    rva: u64,
}

impl<'a> Entry<'a> {
    ghost use Rattle.pe_core.specs.Imports.{is_ordinal};

    /// Whether the entry is an ordinal: its highest bit is set.
    fn is_ordinal(&self, is_64: bool) -> bool
        ensures { result ≡ is_ordinal (entry_size is_64) (entry_view self.now) }
    {
        let highest = if is_64 {
            0x8000_0000_0000_0000
        } else {
            0x8000_0000
        };
        self.entry >= highest
    }

    /// The RVA of the hint and the name, if the entry is no ordinal.
    fn name_rva(&self) -> u32
        ensures { result ≡ self.now.entry % 2 ^ 31 }
    {
        (self.entry % 0x8000_0000) as u32
    }
}

/// The number of lookup entries of a record.
fn entry_count(imported: &SyntheticImportDirectoryEntry<'_>, is_64: bool) -> usize
    ensures { result ≡ length imported.now.lookups.now / entry_size is_64 }
{
    imported.lookups.len() / lookup_size(is_64)
}

/// Appends the first `count` lookup entries of a record.
#[tactic(auto, unfolding(crate::specs::Rows::each))]
fn push_entries<'a, A: Allocator>(
    imported: &SyntheticImportDirectoryEntry<'a>,
    is_64: bool,
    count: usize,
    entries: &mut Vec<Entry<'a>, A>,
) -> std::result::Result<(), AllocError>
    requires { count ≤ length imported.now.lookups.now / entry_size is_64 }
    ensures { OnOk result (map entry_view entries.new.items ≡ map entry_view entries.old.items
        ++ each (import_entry_at (entry_size is_64) (import_record_view imported.now)) count) }
{
    let size = lookup_size(is_64);
    let rva = u64::from(imported.import_directory_entry.address_table_rva);
    for k in 0..count {
        entries.push(Entry {
            dll: imported.name,
            entry: lookup_number(imported.lookups, size * k, is_64),
            rva: rva + (size * k) as u64,
        })?;
    }
    Ok(())
}

/// The lookup entries of all records, in their order.
#[tactic(auto, unfolding(crate::specs::Imports::import_entries))]
fn entries_of<'a, A: Allocator>(
    alloc: A,
    records: &[SyntheticImportDirectoryEntry<'a>],
    is_64: bool,
) -> std::result::Result<Vec<Entry<'a>, A>, AllocError>
    ensures { IfOk result (λ v. map entry_view v.items ≡ import_entries (entry_size is_64)
        (map import_record_view records.now)) }
{
    let mut entries = Vec::new(alloc);
    for record in records {
        push_entries(record, is_64, entry_count(record, is_64), &mut entries)?;
    }
    Ok(entries)
}

/// The number of lookup entries of all records, or `usize::MAX` if there are more.
#[tactic(auto, using(crate::proofs::FirstEntries::entries_counted))]
fn count_entries(records: &[SyntheticImportDirectoryEntry<'_>], is_64: bool) -> usize
    ensures { result ≡ min (length (import_entries (entry_size is_64)
        (map import_record_view records.now))) (2 ^ 64 - 1) }
{
    let mut count: usize = 0;
    for record in records {
        count = count.saturating_add(entry_count(record, is_64));
    }
    count
}

/// The first lookup entries of the records, at most `most`.
#[tactic(auto, using(crate::proofs::FirstEntries::entries_read))]
fn first_entries_of<'a, A: Allocator>(
    alloc: A,
    records: &[SyntheticImportDirectoryEntry<'a>],
    is_64: bool,
    most: usize,
) -> std::result::Result<Vec<Entry<'a>, A>, AllocError>
    ensures { IfOk result (λ v. map entry_view v.items ≡ take most
        (import_entries (entry_size is_64) (map import_record_view records.now))) }
{
    let mut entries = Vec::new(alloc);
    for record in records {
        let count = entry_count(record, is_64).min(most - entries.len());
        push_entries(record, is_64, count, &mut entries)?;
    }
    Ok(entries)
}

/// The offsets of the names that the entries lead to, each after its hint.
fn entry_offsets<A: Allocator>(
    alloc: A,
    entries: &[Entry<'_>],
    sections: &SectionMap<'_>,
    is_64: bool,
) -> std::result::Result<Vec<usize, A>, AllocError>
    ensures { IfOk result (λ v. v.items ≡ map
        (hint_offset_of (offset_in sections.now) (entry_size is_64)) (map entry_view entries.now)) }
{
    let mut offsets = Vec::with_capacity(alloc, entries.len())?;
    let mut window = sections.no_window();
    for entry in entries {
        let offset = if entry.is_ordinal(is_64) {
            // No byte is at this offset, so an ordinal gets no name.
            usize::MAX
        } else {
            sections
                .find_near(entry.name_rva(), &mut window)
                .unwrap_or(usize::MAX)
                .saturating_add(SIZE_OF_HINT)
        };
        offsets.push(offset)?;
    }
    Ok(offsets)
}

/// The import of an entry whose name was looked up. Errors, in order: `Unmapped`, `Short` (the hint), `ImportName`.
#[tactic(auto, unfolding(crate::specs::Imports::import_of))]
fn import_of<'a>(
    image: &MappedBytes<'a, '_>,
    entry: &Entry<'a>,
    name: Option<&'a str>,
    window: &mut Window,
    is_64: bool,
) -> Result<Import<'a>>
    requires window { IsWindow image.now.map window.old }
    requires name { option_map (λ s. s.now) name ≡ text_at image.now.bytes.now
        (hint_offset_of (offset_in image.now.map) (entry_size is_64) (entry_view entry.now)) }
    ensures window { IsWindow image.now.map window.new }
    ensures import { ReturnsAs import_view result (import_of (offset_in image.now.map)
        (entry_size is_64) image.now.bytes.now (entry_view entry.entry.now)) }
{
    let Entry { dll, rva, .. } = *entry;
    if entry.is_ordinal(is_64) {
        return Ok(Import {
            name: None,
            dll,
            ordinal: (entry.entry % 0x1_0000) as u16,
            rva,
        });
    }
    let name_rva = entry.name_rva();
    let Some(offset) = image.map.find_near(name_rva, window) else {
        return Err(Error::Malformed(Reason::Unmapped(u64::from(name_rva))));
    };
    let ordinal = u16_at(image.bytes, offset)?;
    if name.is_none() {
        return Err(Error::Malformed(Reason::ImportName(name_rva)));
    }
    Ok(Import {
        name,
        dll,
        ordinal,
        rva,
    })
}

/// The imports of these entries, which have these names.
#[tactic(auto, using(crate::proofs::ImportLists::imports_read))]
fn named_imports<'a, A: Allocator>(
    alloc: A,
    image: &MappedBytes<'a, '_>,
    entries: &[Entry<'a>],
    names: &[Option<&'a str>],
    is_64: bool,
) -> Result<Vec<Import<'a>, A>>
    requires many { length names.now ≡ length entries.now }
    requires names { AreEntryNames (offset_in image.now.map)
        (entry_size is_64) image.now.bytes.now entries.now names.now }
    ensures { ReturnsUnlessMemory (λ v. map import_view v.items) result (all_or_refusal (map
        (import_of (offset_in image.now.map) (entry_size is_64) image.now.bytes.now)
        (map entry_view entries.now))) }
{
    let mut imports = Vec::with_capacity(alloc, entries.len())?;
    let mut window = image.map.no_window();
    for (i, entry) in entries.iter().enumerate() {
        let import = import_of(image, entry, names[i], &mut window, is_64)?;
        imports.push(import)?;
    }
    Ok(imports)
}

/// The imports of these entries.
fn imports_of<'a, A: Allocator + Copy + Drop>(
    alloc: A,
    image: &MappedBytes<'a, '_>,
    entries: &[Entry<'a>],
    is_64: bool,
) -> Result<Vec<Import<'a>, A>>
    ensures { ReturnsUnlessMemory (λ v. map import_view v.items) result (all_or_refusal (map
        (import_of (offset_in image.now.map) (entry_size is_64) image.now.bytes.now)
        (map entry_view entries.now))) }
{
    let offsets = entry_offsets(alloc, entries, &image.map, is_64)?;
    // All names at once: many of them may lie in one long text.
    let names = texts_at(alloc, image.bytes, &offsets)?;
    named_imports(alloc, image, entries, &names, is_64)
}

impl<'a> Import<'a> {
    /// The imports of all records, in the order of their lookup entries. An entry whose highest bit is set is an
    /// ordinal, in its low 16 bits. Otherwise its low 31 bits are the RVA of a hint of 2 bytes, and the name follows
    /// the hint. Errors, of each entry in turn:
    /// - `Unmapped`: the RVA of the hint; `Short`: the hint;
    /// - `ImportName`: the name is not NUL-terminated or not UTF-8.
    ///
    /// `Memory` is possible at any point, if there is an entry: without one no memory is asked for.
    #[tactic(auto, using(crate::proofs::FirstEntries::none_imported))]
    pub fn parse_with_opts<A: Allocator + Copy + Drop>(
        alloc: A,
        bytes: &'a [u8],
        import_data: &ImportData<'a, A>,
        sections: &[SectionTable],
        file_alignment: u32,
        opts: &ParseOptions,
        is_64: bool,
    ) -> Result<Vec<Import<'a>, A>>
        ensures imports { ReturnsUnlessMemory (λ v. map import_view v.items) result
            (imports (section_map opts.now sections.now file_alignment)
            (entry_size is_64) bytes.entry.now (import_data_view import_data.now)) }
        ensures memory { IfErr result (λ error. IfMemory error
            (0 < length (import_entries (entry_size is_64) (import_data_view import_data.now)))) }
    {
        if import_data.import_count(is_64) == 0 {
            return Ok(Vec::new(alloc));
        }
        let index = SectionIndex::new(alloc, sections, file_alignment, opts)?;
        let map = index.map();
        Import::parse_with_map(alloc, &MappedBytes { bytes, map }, import_data, is_64)
    }

    /// The imports of all records, as `parse_with_opts` lists them, by a section map. Records may share their lookup
    /// entries, so these may be more imports than fit in memory; `parse_at_most` lists the first of them.
    #[tactic(auto, using(crate::proofs::FirstEntries::none_imported, crate::proofs::NoMemory::asked), unfolding(crate::specs::Imports::imports))]
    pub fn parse_with_map<A: Allocator + Copy + Drop>(
        alloc: A,
        image: &MappedBytes<'a, '_>,
        import_data: &ImportData<'a, A>,
        is_64: bool,
    ) -> Result<Vec<Import<'a>, A>>
        ensures imports { ReturnsUnlessMemory
            (λ v. map import_view v.items) result (imports (offset_in image.now.map)
            (entry_size is_64) image.now.bytes.now (import_data_view import_data.now)) }
        ensures memory { IfErr result (λ error. IfMemory error
            (0 < length (import_entries (entry_size is_64) (import_data_view import_data.now)))) }
    {
        if import_data.import_count(is_64) == 0 {
            return Ok(Vec::new(alloc));
        }
        let entries = entries_of(alloc, &import_data.import_data, is_64)?;
        imports_of(alloc, image, &entries, is_64)
    }

    /// The imports of the first entries, at most `most`, as `parse_with_map` lists them. Records may share their lookup
    /// entries, so an image may have more imports than fit in memory; `ImportData::import_count` says how many. Errors:
    /// those of `parse_with_map`, of these entries alone. It asks for memory for these entries alone.
    #[tactic(auto, using(crate::proofs::FirstEntries::none_among, crate::proofs::NoMemory::asked), unfolding(crate::specs::Imports::first_imports))]
    pub fn parse_at_most<A: Allocator + Copy + Drop>(
        alloc: A,
        image: &MappedBytes<'a, '_>,
        import_data: &ImportData<'a, A>,
        is_64: bool,
        most: usize,
    ) -> Result<Vec<Import<'a>, A>>
        ensures imports { ReturnsUnlessMemory
            (λ v. map import_view v.items) result (first_imports (offset_in image.now.map)
            (entry_size is_64) image.now.bytes.now (import_data_view import_data.now) most) }
        ensures memory { IfErr result (λ error. IfMemory error ((0 < most)
            × (0 < length (import_entries (entry_size is_64) (import_data_view import_data.now))))) }
    {
        if most.min(import_data.import_count(is_64)) == 0 {
            return Ok(Vec::new(alloc));
        }
        let entries = first_entries_of(alloc, &import_data.import_data, is_64, most)?;
        imports_of(alloc, image, &entries, is_64)
    }
}

impl<'a, A: Allocator + Copy + Drop> ImportData<'a, A> {
    /// The number of imports: of the lookup entries of all records. Takes no memory, and reads no entry. Records may share
    /// their entries, so it may be larger than the image. `usize::MAX` if there are more.
    pub fn import_count(&self, is_64: bool) -> usize
        ensures { result ≡ min (length (import_entries (entry_size is_64)
            (import_data_view self.now))) (2 ^ 64 - 1) }
    {
        count_entries(&self.import_data, is_64)
    }
}
