//! The import directory: a table of records, one for each DLL, each with the DLL's name and a table of lookup entries
//! ([layout](https://learn.microsoft.com/windows/win32/debug/pe-format#the-idata-section)). A caller parses
//! `ImportData` from data directory 1, and passes it to `Import::parse_with_opts` for the list of imports.

ghost use Rattle.std.specs.Prelude.{◌≡◌, ◌*◌, ◌+◌, ◌/◌, ◌≤◌, length, map, All, IfErr, IfOk, Some};
ghost use Rattle.std.specs.Option.{option_and_then, option_map};
ghost use Rattle.pe_core.specs.Bytes.{le, range, record_at};
ghost use Rattle.pe_core.specs.Imports.{AreLibraries, import_data_view, import_data_at, import_record, import_record_view, import_records, entry_size, lookups_at, lookups_rva};
ghost use Rattle.pe_core.specs.ImportSteps.{AreNames, IsList, StandInFront};
ghost use Rattle.pe_core.specs.Options.{default_options};
ghost use Rattle.pe_core.specs.Records.{import_entry};
ghost use Rattle.pe_core.specs.Refusals.{Returns, ReturnsAs, ReturnsUnlessMemory, ReturnsUnlessMemoryAfter};
ghost use Rattle.pe_core.specs.Rows.{each};
ghost use Rattle.pe_core.specs.SectionIndex.{offset_or_end};
ghost use Rattle.pe_core.specs.SectionMap.{mapped, offset_in, section_map};
ghost use Rattle.pe_core.specs.Text.{text_at, texts_of};
ghost use Rattle.pe_core.specs.declared.error.Error.TheVariants.{Memory};

use crate::bytes::{read_u32, read_u64, require_bytes};
use crate::data_directories::DataDirectory;
use crate::error::{Error, Reason, Result};
use crate::many_lists::{Entries, lists_at, lookups_among};
use crate::many_texts::texts_at;
use crate::mapped_bytes::MappedBytes;
use crate::options::ParseOptions;
use crate::section_index::{SectionIndex, mapped_offset};
use crate::section_table::SectionTable;
use std::alloc::{AllocError, Allocator, Global};

/// The size of a record of the import directory in bytes.
const SIZE_OF_IMPORT_ENTRY: usize = 20;

/// A record of the import directory (`IMAGE_IMPORT_DESCRIPTOR`), 20 bytes.
#[derive(Clone, Copy, Debug, PartialEq)]
pub struct ImportDirectoryEntry {
    /// The RVA of the lookup table. 0 if there is none; the address table then has the lookup entries.
    pub lookup_table_rva: u32,
    /// 0 until the imports are bound.
    pub time_date_stamp: u32,
    /// The index of the first forwarder reference.
    pub forwarder_chain: u32,
    /// The RVA of the DLL's name. A record with 0 here ends the directory.
    pub name_rva: u32,
    /// The RVA of the address table, whose entries the loader overwrites. A record with 0 here ends the directory.
    pub address_table_rva: u32,
}

impl ImportDirectoryEntry {
    ghost use Rattle.pe_core.specs.Records.{import_entry};
    ghost use Rattle.pe_core.specs.Imports.{is_last, lookups_rva};

    /// The record at `offset`, whose 20 bytes the caller knows to lie in `bytes`.
    #[tactic(auto, unfolding(crate::specs::Records::import_entry))]
    fn at(bytes: &[u8], offset: usize) -> ImportDirectoryEntry
        requires { offset + 20 ≤ length bytes.now }
        ensures { result ≡ import_entry bytes.now offset }
    {
        ImportDirectoryEntry {
            lookup_table_rva: read_u32(bytes, offset),
            time_date_stamp: read_u32(bytes, offset + 4),
            forwarder_chain: read_u32(bytes, offset + 8),
            name_rva: read_u32(bytes, offset + 12),
            address_table_rva: read_u32(bytes, offset + 16),
        }
    }

    /// The record at `offset`, 20 bytes. Error: `Short`.
    pub fn parse(bytes: &[u8], offset: usize) -> Result<ImportDirectoryEntry>
        ensures { Returns result (record_at bytes.now offset 20 (import_entry bytes.now offset)) }
    {
        require_bytes(bytes, offset, SIZE_OF_IMPORT_ENTRY)?;
        Ok(ImportDirectoryEntry::at(bytes, offset))
    }

    /// Whether the record ends the directory: the RVA of its name or of its address table is 0.
    pub fn is_last(&self) -> bool
        ensures { result ≡ is_last self.now }
    {
        self.name_rva == 0 || self.address_table_rva == 0
    }

    /// The RVA of the record's lookup entries: its lookup table, or its address table if it has no lookup table.
    pub fn lookups_rva(&self) -> u32
        ensures { result ≡ lookups_rva self.now }
    {
        if self.lookup_table_rva == 0 {
            self.address_table_rva
        } else {
            self.lookup_table_rva
        }
    }
}

/// A record of the import directory, with its DLL's name and its lookup entries.
#[derive(Debug, Drop)]
pub struct SyntheticImportDirectoryEntry<'a> {
    /// The record itself.
    pub import_directory_entry: ImportDirectoryEntry,
    /// The name of the DLL.
    pub name: &'a str,
    /// The lookup entries, 8 bytes each in PE32+ and 4 in PE32, without the zero entry that ends them.
    /// `Import::parse_with_opts` reads them.
    pub lookups: &'a [u8],
}

/// The import directory of an image.
#[derive(Debug, Drop)]
pub struct ImportData<'a, A: Allocator + Copy + Drop = Global> {
    /// The records, in the order of the directory.
    pub import_data: Vec<SyntheticImportDirectoryEntry<'a>, A>,
}

/// The size of a lookup entry in bytes: 8 in PE32+ (`is_64`), 4 in PE32.
pub fn lookup_size(is_64: bool) -> usize
    ensures { result ≡ entry_size is_64 }
{
    if is_64 { 8 } else { 4 }
}

/// The lookup entry at `offset`, whose bytes the caller knows to lie in `bytes`.
pub fn lookup_number(bytes: &[u8], offset: usize, is_64: bool) -> u64
    requires { offset + entry_size is_64 ≤ length bytes.now }
    ensures { result ≡ le bytes.now offset (entry_size is_64) }
{
    if is_64 {
        read_u64(bytes, offset)
    } else {
        u64::from(read_u32(bytes, offset))
    }
}

/// The lookup entries from `offset` on, without the zero entry that ends them. They have 8 bytes in PE32+
/// (`is_64`), 4 in PE32. Error: `Short` if no zero entry ends them.
#[tactic(auto, using(crate::proofs::ImportLists::entries_read))]
pub fn lookups_at(bytes: &[u8], offset: usize, is_64: bool) -> Result<&[u8]>
    ensures { ReturnsAs
        (λ s. s.now) result (lookups_at (entry_size is_64) bytes.now (Some offset)) }
{
    let size = lookup_size(is_64);
    let mut count = 0;
    loop {
        let end = offset + size * count;
        require_bytes(bytes, end, size)?;
        if lookup_number(bytes, end, is_64) == 0 {
            return Ok(&bytes[offset..end]);
        }
        count += 1;
    }
}

/// The lists that `lists_at` found, of entries of this width.
#[derive(Clone, Copy)]
struct Lists<'l> {
    lists: &'l [Entries],
    is_64: bool,
}

/// The lookup entries of a record, by the lists of `lists_at`. None if their RVA is unmapped.
fn lookups_of<'a>(
    image: &MappedBytes<'a, '_>,
    entry: &ImportDirectoryEntry,
    found: Lists<'_>,
) -> Result<&'a [u8]>
    requires { All (IsList (entry_size found.is_64) image.now.bytes.now) found.lists.now }
    ensures { ReturnsAs (λ s. s.now) result (lookups_at (entry_size found.entry.is_64)
        image.now.bytes.now (offset_in image.now.map (lookups_rva entry.now))) }
{
    match image.map.find(entry.lookups_rva() as usize) {
        Some(offset) => lookups_among(image.bytes, found.lists, offset, found.is_64),
        None => Ok(&[]),
    }
}

/// A record whose name was looked up. Errors, in order: `Unmapped`, `ImportName` (its name), `Short` (its lookup
/// entries).
#[tactic(auto, unfolding(crate::specs::Imports::import_record))]
fn import_record<'a>(
    image: &MappedBytes<'a, '_>,
    entry: ImportDirectoryEntry,
    name: Option<&'a str>,
    found: Lists<'_>,
) -> Result<SyntheticImportDirectoryEntry<'a>>
    requires lists { All (IsList (entry_size found.is_64) image.now.bytes.now) found.lists.now }
    requires name { option_map (λ s. s.now) name ≡ option_and_then (text_at image.now.bytes.now)
        (offset_in image.now.map entry.name_rva) }
    ensures { ReturnsAs (λ r. Some (import_record_view r)) result (import_record
        (offset_in image.now.map) (entry_size found.entry.is_64) image.now.bytes.now entry) }
{
    image.map.offset_of(entry.name_rva)?;
    let Some(name) = name else {
        return Err(Error::Malformed(Reason::ImportName(entry.name_rva)));
    };
    let lookups = lookups_of(image, &entry, found)?;
    Ok(SyntheticImportDirectoryEntry {
        import_directory_entry: entry,
        name,
        lookups,
    })
}

/// The number of whole records before the one that ends the directory, or before the end of the bytes.
fn count_records(bytes: &[u8], offset: usize) -> usize
    ensures { StandInFront bytes.now offset result }
{
    let mut count = 0;
    while require_bytes(
        bytes,
        offset + SIZE_OF_IMPORT_ENTRY * count,
        SIZE_OF_IMPORT_ENTRY,
    )
    .is_ok()
    {
        if ImportDirectoryEntry::at(bytes, offset + SIZE_OF_IMPORT_ENTRY * count).is_last() {
            break;
        }
        count += 1;
    }
    count
}

/// The offsets of the names of the first `count` records.
#[tactic(auto, unfolding(crate::specs::Rows::each))]
fn name_offsets<A: Allocator>(
    alloc: A,
    image: &MappedBytes<'_, '_>,
    offset: usize,
    count: usize,
) -> std::result::Result<Vec<usize, A>, AllocError>
    requires { StandInFront image.now.bytes.now offset count }
    ensures { IfOk result (λ v. v.items ≡ each (λ i. offset_or_end (offset_in image.now.map
        (import_entry image.now.bytes.now (offset + 20 * i)).name_rva)) count) }
{
    let mut offsets = Vec::with_capacity(alloc, count)?;
    for i in 0..count {
        let entry = ImportDirectoryEntry::at(image.bytes, offset + SIZE_OF_IMPORT_ENTRY * i);
        offsets.push(image.map.find_or_end(entry.name_rva))?;
    }
    Ok(offsets)
}

/// The offsets of the lookup entries of the first `count` records.
#[tactic(auto, unfolding(crate::specs::Rows::each))]
fn list_offsets<A: Allocator>(
    alloc: A,
    image: &MappedBytes<'_, '_>,
    offset: usize,
    count: usize,
) -> std::result::Result<Vec<usize, A>, AllocError>
    requires { StandInFront image.now.bytes.now offset count }
    ensures { IfOk result (λ v. v.items ≡ each (λ i. offset_or_end (offset_in image.now.map
        (lookups_rva (import_entry image.now.bytes.now (offset + 20 * i))))) count) }
{
    let mut offsets = Vec::with_capacity(alloc, count)?;
    for i in 0..count {
        let entry = ImportDirectoryEntry::at(image.bytes, offset + SIZE_OF_IMPORT_ENTRY * i);
        offsets.push(image.map.find_or_end(entry.lookups_rva()))?;
    }
    Ok(offsets)
}

/// The records that have these names, by the lists of `lists_at`. `Short` if the record that ends the directory is truncated.
#[tactic(auto, using(crate::proofs::ImportLists::records_read))]
fn named_records<'a, A: Allocator>(
    alloc: A,
    image: &MappedBytes<'a, '_>,
    offset: usize,
    names: &[Option<&'a str>],
    found: Lists<'_>,
) -> Result<Vec<SyntheticImportDirectoryEntry<'a>, A>>
    requires lists { All (IsList (entry_size found.is_64) image.now.bytes.now) found.lists.now }
    requires stand { StandInFront image.now.bytes.now offset (length names.now) }
    requires names { AreNames (offset_in image.now.map) image.now.bytes.now offset names.now }
    ensures { ReturnsUnlessMemory (λ v. map import_record_view v.items) result (import_records
        (offset_in image.now.map) (entry_size found.entry.is_64) image.now.bytes.now offset) }
{
    let mut records = Vec::with_capacity(alloc, names.len())?;
    for (i, name) in names.iter().enumerate() {
        let entry = ImportDirectoryEntry::at(image.bytes, offset + SIZE_OF_IMPORT_ENTRY * i);
        records.push(import_record(image, entry, *name, found)?)?;
    }
    let end = offset + SIZE_OF_IMPORT_ENTRY * names.len();
    require_bytes(image.bytes, end, SIZE_OF_IMPORT_ENTRY)?;
    Ok(records)
}

/// The records of the directory at `offset`.
#[tactic(auto, using(crate::proofs::ImportLists::all_named))]
fn records_at<'a, A: Allocator + Copy + Drop>(
    alloc: A,
    image: &MappedBytes<'a, '_>,
    offset: usize,
    is_64: bool,
) -> Result<Vec<SyntheticImportDirectoryEntry<'a>, A>>
    ensures { ReturnsUnlessMemory (λ v. map import_record_view v.items) result (import_records
        (offset_in image.now.map) (entry_size is_64) image.now.bytes.now offset) }
{
    let count = count_records(image.bytes, offset);
    let offsets = name_offsets(alloc, image, offset, count)?;
    // All names at once: many of them may lie in one long text.
    let names = texts_at(alloc, image.bytes, &offsets)?;
    // All lists at once too: records may share them.
    let starts = list_offsets(alloc, image, offset, count)?;
    let lists = lists_at(alloc, image.bytes, &starts, is_64)?;
    let found = Lists {
        lists: &lists,
        is_64,
    };
    named_records(alloc, image, offset, &names, found)
}

/// The names of the DLLs, in the order of the records.
fn names_of<'a, A: Allocator>(
    alloc: A,
    records: &[SyntheticImportDirectoryEntry<'a>],
) -> std::result::Result<Vec<&'a str, A>, AllocError>
    ensures { IfOk result
        (λ v. map (λ s. s.now) v.items ≡ map (λ r. r.name) (map import_record_view records.now)) }
{
    let mut names = Vec::with_capacity(alloc, records.len())?;
    for imported in records {
        names.push(imported.name)?;
    }
    Ok(names)
}

/// Sorts the names by their bytes, and keeps each once.
pub(crate) fn sort_once<'a, A: Allocator>(names: &mut Vec<&'a str, A>)
    ensures { AreLibraries (map (λ s. s.now) names.old.items) (map (λ s. s.now) names.new.items) }
{
    names.sort_unstable();
    names.dedup();
}

impl<'a, A: Allocator + Copy + Drop> ImportData<'a, A> {
    /// The import directory, with the default options. `is_64` says whether the image is PE32+, where lookup entries
    /// have 8 bytes, not 4. Errors: those of `parse_with_opts`.
    pub fn parse(
        alloc: A,
        bytes: &'a [u8],
        directory: DataDirectory,
        sections: &[SectionTable],
        file_alignment: u32,
        is_64: bool,
    ) -> Result<ImportData<'a, A>>
        ensures { ReturnsUnlessMemoryAfter (mapped (section_map default_options
            sections.now file_alignment directory.virtual_address)) import_data_view result
            (import_data_at (section_map default_options sections.now file_alignment)
            (entry_size is_64) bytes.entry.now directory.virtual_address) }
    {
        ImportData::parse_with_opts(
            alloc,
            bytes,
            directory,
            sections,
            file_alignment,
            &ParseOptions::default(),
            is_64,
        )
    }

    /// The import directory. The size of `directory` isn't used. Errors, in order:
    /// - `Unmapped`: the RVA of `directory`, before any allocation;
    /// - of each record in turn, up to the one whose name or address table has the RVA 0: `Short` (its 20 bytes),
    ///   `Unmapped` and `ImportName` (its name), `Short` (no zero entry ends its lookup entries). A record whose lookup
    ///   entries are unmapped has none.
    ///
    /// `Memory` is possible after the first test.
    pub fn parse_with_opts(
        alloc: A,
        bytes: &'a [u8],
        directory: DataDirectory,
        sections: &[SectionTable],
        file_alignment: u32,
        opts: &ParseOptions,
        is_64: bool,
    ) -> Result<ImportData<'a, A>>
        ensures { ReturnsUnlessMemoryAfter
            (mapped (section_map opts.now sections.now file_alignment directory.virtual_address))
            import_data_view result
            (import_data_at (section_map opts.now sections.now file_alignment)
            (entry_size is_64) bytes.entry.now directory.virtual_address) }
    {
        // Before the index, which allocates: an unmapped directory is `Unmapped` whether or not memory is left.
        let offset = mapped_offset(directory.virtual_address, sections, file_alignment, opts)?;
        let index = SectionIndex::new(alloc, sections, file_alignment, opts)?;
        let map = index.map();
        let import_data = records_at(alloc, &MappedBytes { bytes, map }, offset, is_64)?;
        Ok(ImportData { import_data })
    }

    /// The import directory, as `parse_with_opts` returns it, by a section map.
    pub fn parse_with_map(
        alloc: A,
        image: &MappedBytes<'a, '_>,
        directory: DataDirectory,
        is_64: bool,
    ) -> Result<ImportData<'a, A>>
        ensures { ReturnsUnlessMemoryAfter
            (mapped (offset_in image.now.map directory.virtual_address)) import_data_view result
            (import_data_at (offset_in image.now.map)
            (entry_size is_64) image.now.bytes.now directory.virtual_address) }
    {
        let offset = image.map.offset_of(directory.virtual_address)?;
        let import_data = records_at(alloc, image, offset, is_64)?;
        Ok(ImportData { import_data })
    }

    /// The names of the imported DLLs, sorted by their bytes, each once. It compares the name of each record, to its end
    /// where names are equal; `libraries_with_map` compares names at one offset once. Error: `Memory`.
    pub fn libraries(&self, alloc: A) -> Result<Vec<&'a str, A>>
        ensures listed { IfOk result (λ v. AreLibraries
            (map (λ r. r.name) (import_data_view self.now)) (map (λ s. s.now) v.items)) }
        ensures refused { IfErr result (λ error. error ≡ Memory record {}) }
    {
        let mut names = names_of(alloc, &self.import_data)?;
        sort_once(&mut names);
        Ok(names)
    }
}
