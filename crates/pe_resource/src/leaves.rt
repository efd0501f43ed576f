//! All leaves of a resource tree, one by one. The tree has three levels: the entries of the first directory are types, those
//! of the directory of a type are names, those of the directory of a name are languages, and each of these leads to a data
//! entry. Layout: <https://learn.microsoft.com/windows/win32/debug/pe-format#the-rsrc-section>.
//!
//! A caller makes a walk by `ResourceData::leaves`, and takes of each leaf what it wants: a content, a name, version
//! information. An entry that has no leaf is one item, an error, and the walk goes on after it. No tree makes it endless,
//! since it never goes below the third level, and no call allocates or looks at more than three entries. But directories
//! may be shared: a hostile tree of n bytes can have (n/8)^3 items. A caller that does not trust the file bounds
//! the walk, by `take`.

ghost use Rattle.std.specs.Prelude.{◌≡◌, ◌≤◌, ◌++◌, ◌∷◌, [], length, map, IfOk};
ghost use Rattle.std.specs.List.{flat_map};
ghost use Rattle.std.specs.Option.{MatchOption, option_map};
ghost use Rattle.std.specs.Iterator.{YieldsFirstBy, item_count};
ghost use Rattle.pe_core.specs.Offsets.{IsWithin, bytes_in};
ghost use Rattle.pe_core.specs.Refusals.{Returns, ReturnsAs};
ghost use Rattle.pe_core.specs.SectionMap.{offset_in};
ghost use Rattle.pe_core.specs.declared.byte_range.ByteRange.{ByteRange};
ghost use Rattle.pe_resource.specs.Contents.{file_range};
ghost use Rattle.pe_resource.specs.LeafPositions.{first_below, in_type, others, range_below, split_table};
ghost use Rattle.pe_resource.specs.ResourceEntries.{entries, entries_left};
ghost use Rattle.pe_resource.specs.Leaves.{TreeReturns, tree_answer, table_below, leaf_of, leaves_of_name, leaves_of_type, tree_leaves, leaves_left, walk_view, name_units, content_of_type, leaf_version};
ghost use Rattle.pe_resource.specs.VersionBlocks.{BlockReturns, block_view, leaf_block};
ghost use Rattle.pe_resource.specs.VersionFields.{version_view};

use crate::constants::{RESOURCE_ENTRY_SIZE, RT_VERSION};
use crate::content::{ResourceDataEntry, SIZE_OF_DATA_ENTRY};
use crate::directory::{ImageResourceDirectory, ResourceEntryIterator, SIZE_OF_DIRECTORY};
use crate::entry::ResourceEntry;
use crate::tree_error::ResourceTreeError;
use crate::version::VersionInfo;
use crate::version_block::VersionBlock;
use crate::version_block_error::VersionBlockError;
use pe_core::{
    ByteRange, EntryWithId, MappedBytes, Result, TableEntry, WholeEntries, read_u16, require_bytes,
    slice_at,
};

/// A leaf of a resource tree: a resource in one language.
#[derive(Clone, Copy, PartialEq)]
pub struct ResourceLeaf {
    /// The entry of its type: the id is one of `RT_*`, or the type has a name.
    pub resource_type: ResourceEntry,
    /// The entry of its name, or of its id.
    pub name: ResourceEntry,
    /// The entry of its language: the id is a language identifier of Windows, 0 for any language.
    pub language: ResourceEntry,
    /// Where its content is.
    pub data_entry: ResourceDataEntry,
}

impl ResourceLeaf {
    /// Returns the file range of the content. `image` is the whole file and its section map. Errors, in order: `Unmapped` if its
    /// RVA is not mapped; `ResourceBounds` if it is not in the file.
    pub fn content_range(&self, image: &MappedBytes<'_, '_>) -> Result<ByteRange>
        ensures range { Returns result (file_range image.now.bytes.now self.now.data_entry.size
            (offset_in image.now.map self.now.data_entry.offset_to_data)) }
        ensures within { IfOk result (IsWithin image.now.bytes.now) }
    {
        self.data_entry.content_range(image)
    }

    /// The content, if the type has this id.
    fn content_of_type<'a>(&self, image: &MappedBytes<'a, '_>, id: u16) -> Result<Option<&'a [u8]>>
        ensures { ReturnsAs (option_map (λ s. s.now)) result
            (content_of_type (offset_in image.now.map) image.now.bytes.now id self.now) }
    {
        if !self.resource_type.has_id(id) {
            return Ok(None);
        }
        let range = self.content_range(image)?;
        Ok(Some(range.of(image.bytes)))
    }

    /// Reads the version information in the content. `image` is the whole file and its section map. `None` unless the type is
    /// `RT_VERSION`. Errors, in order: those of `content_range`; those of `VersionInfo::of_strings`.
    pub fn version_info<'a>(&self, image: &MappedBytes<'a, '_>) -> Result<Option<VersionInfo<'a>>>
        ensures { ReturnsAs (option_map version_view) result
            (leaf_version (offset_in image.now.map) image.now.bytes.now self.now) }
    {
        let content = self.content_of_type(image, RT_VERSION)?;
        VersionInfo::of_content(content)
    }

    /// Reads the block that the content is, the root of all strings and languages in it. `image` is the whole file and its
    /// section map. `None` unless the type is `RT_VERSION`, and if the content is empty or starts with a length of 0. Errors, in
    /// order: `Image` with those of `content_range`; those of `VersionBlock::parse`.
    pub fn version_block<'a>(
        &self,
        image: &MappedBytes<'a, '_>,
    ) -> std::result::Result<Option<VersionBlock<'a>>, VersionBlockError>
        ensures { BlockReturns (option_map block_view) result
            (leaf_block (offset_in image.now.map) image.now.bytes.now self.now) }
    {
        let data = self.content_of_type(image, RT_VERSION)?;
        VersionBlock::of_content(data)
    }
}

impl ResourceEntry {
    /// Returns the UTF-16 code units of the name. `data` starts with the first directory. `None` if the entry has an id;
    /// `Short` if the name is truncated.
    #[tactic(auto, unfolding(crate::specs::Leaves::name_units))]
    pub fn name_units<'a>(&self, data: &'a [u8]) -> Result<Option<&'a [u8]>>
        ensures { ReturnsAs (option_map (λ s. s.now)) result (name_units data.entry.now self.now) }
    {
        if !self.name_is_string() {
            return Ok(None);
        }
        let offset = self.name_offset() as usize;
        require_bytes(data, offset, 2)?;
        let units = read_u16(data, offset) as usize;
        Ok(Some(slice_at(data, offset + 2, 2 * units)?))
    }
}

/// The first entry of a table, and the bytes after it. `None` if it has no entry.
#[tactic(auto, unfolding(crate::specs::ResourceEntries::entries))]
fn first_entry(table: &[u8]) -> Option<(ResourceEntry, &[u8])>
    ensures { MatchOption result
        (entries table.now ≡ []) (λ x. entries table.now ≡ x.0 ∷ entries x.1.now) }
{
    let mut entries = WholeEntries::<ResourceEntry>::new(table);
    let first = entries.next()?;
    Some((first, entries.table()))
}

/// The range in the data of the entries of the directory that an entry leads to. Errors, in order: `NotDirectory`; `Image`
/// with `Short` if the directory or its entries are truncated; `NoEntries`.
#[tactic(auto, unfolding(crate::specs::Leaves::table_below))]
fn table_below(
    data: &[u8],
    entry: ResourceEntry,
) -> std::result::Result<ByteRange, ResourceTreeError>
    ensures table { TreeReturns (bytes_in data.now) result (table_below data.now entry) }
    ensures within { IfOk result (IsWithin data.now) }
    ensures some { IfOk result (λ r. 8 ≤ r.length) }
    ensures place { IfOk result (λ r. r ≡ range_below data.now entry) }
{
    let offset = entry.offset_to_directory();
    if !entry.data_is_directory() {
        return Err(ResourceTreeError::NotDirectory(offset));
    }
    let start = offset as usize;
    require_bytes(data, start, SIZE_OF_DIRECTORY)?;
    let directory = ImageResourceDirectory::at(data, start);
    let table = ByteRange {
        offset: start + SIZE_OF_DIRECTORY,
        length: directory.entries_size(),
    };
    require_bytes(data, table.offset, table.length)?;
    if directory.count() == 0 {
        return Err(ResourceTreeError::NoEntries(offset));
    }
    Ok(table)
}

/// The first entry of a table in the data that has one, and the range of those after it.
#[tactic(auto, using(crate::proofs::LeafWalks::entries_of_range))]
pub(crate) fn split_range(data: &[u8], table: ByteRange) -> (ResourceEntry, ByteRange)
    requires within { IsWithin data.now table }
    requires some { 8 ≤ table.length }
    ensures entries { entries (bytes_in data.now table) ≡ result.0 ∷ entries (bytes_in data.now result.1) }
    ensures within { IsWithin data.now result.1 }
    ensures value { result ≡ split_table data.now table }
{
    (
        ResourceEntry::at(table.of(data), 0),
        ByteRange {
            offset: table.offset + RESOURCE_ENTRY_SIZE,
            length: table.length - RESOURCE_ENTRY_SIZE,
        },
    )
}

/// The leaf of the entries of a type, a name and a language. Errors, in order: `NotData`; `Image` with `Short` if the data
/// entry is truncated.
#[tactic(auto, unfolding(crate::specs::Leaves::leaf_of))]
pub(crate) fn leaf_of(
    data: &[u8],
    resource_type: ResourceEntry,
    name: ResourceEntry,
    language: ResourceEntry,
) -> std::result::Result<ResourceLeaf, ResourceTreeError>
    ensures { tree_answer result ≡ leaf_of data.now resource_type name language }
{
    if language.data_is_directory() {
        return Err(ResourceTreeError::NotData(language.offset_to_directory()));
    }
    let offset = language.offset_to_data_or_directory as usize;
    require_bytes(data, offset, SIZE_OF_DATA_ENTRY)?;
    Ok(ResourceLeaf {
        resource_type,
        name,
        language,
        data_entry: ResourceDataEntry::at(data, offset),
    })
}

/// The first item of a name, and the range of the entries of the languages after it.
#[derive(Drop)]
pub(crate) struct FirstOfName {
    pub item: std::result::Result<ResourceLeaf, ResourceTreeError>,
    pub languages: ByteRange,
}

/// Takes the first item of a name: the leaf of its first language, or why the name has none.
#[tactic(auto, using(crate::proofs::Entries::entries_empty), unfolding(crate::specs::Leaves::leaves_of_name))]
pub(crate) fn first_of_name(
    data: &[u8],
    resource_type: ResourceEntry,
    name: ResourceEntry,
) -> FirstOfName
    ensures items { leaves_of_name data.now resource_type name ≡ tree_answer result.item
        ∷ map (leaf_of data.now resource_type name) (entries (bytes_in data.now result.languages)) }
    ensures within { IsWithin data.now result.languages }
    ensures place { result.languages ≡ others (first_below data.now name) }
{
    match table_below(data, name) {
        Err(error) => FirstOfName {
            item: Err(error),
            languages: ByteRange::EMPTY,
        },
        Ok(table) => {
            let (language, languages) = split_range(data, table);
            FirstOfName {
                item: leaf_of(data, resource_type, name, language),
                languages,
            }
        }
    }
}

/// The first item of a type, the name that it is of, and the ranges of the entries of the languages and of the names after it.
#[derive(Drop)]
pub(crate) struct FirstOfType {
    pub item: std::result::Result<ResourceLeaf, ResourceTreeError>,
    pub name: ResourceEntry,
    pub languages: ByteRange,
    pub names: ByteRange,
}

/// Takes the first item of a type: that of its first name, or why the type has none.
#[tactic(auto, using(crate::proofs::Entries::entries_empty), unfolding(crate::specs::Leaves::leaves_of_type))]
pub(crate) fn first_of_type(data: &[u8], resource_type: ResourceEntry) -> FirstOfType
    ensures items { leaves_of_type data.now resource_type ≡ tree_answer result.item
        ∷ (map (leaf_of data.now resource_type result.name) (entries (bytes_in data.now result.languages))
        ++ flat_map (leaves_of_name data.now resource_type) (entries (bytes_in data.now result.names))) }
    ensures languages { IsWithin data.now result.languages }
    ensures names { IsWithin data.now result.names }
    ensures place { (types : ByteRange) → in_type data.now types resource_type
        (first_below data.now resource_type) ≡ record {
          types = types;
          resource_type = resource_type;
          names = result.names;
          name = result.name;
          languages = result.languages;
        } }
{
    match table_below(data, resource_type) {
        Err(error) => FirstOfType {
            item: Err(error),
            name: ResourceEntry::default(),
            languages: ByteRange::EMPTY,
            names: ByteRange::EMPTY,
        },
        Ok(table) => {
            let (name, names) = split_range(data, table);
            let first = first_of_name(data, resource_type, name);
            FirstOfType {
                item: first.item,
                name,
                languages: first.languages,
                names,
            }
        }
    }
}

/// The leaves of a resource tree that are left. An entry that has no leaf is an item of its own, an error, and the walk goes
/// on after it.
#[derive(Clone, Copy)]
pub struct ResourceLeaves<'a> {
    data_bytes: &'a [u8],
    types: &'a [u8],
    resource_type: ResourceEntry,
    names: &'a [u8],
    name: ResourceEntry,
    languages: &'a [u8],
}

impl<'a> ResourceLeaves<'a> {
    /// All leaves of the tree whose types are these entries. `data` starts with the first directory.
    pub fn new(data: &'a [u8], types: ResourceEntryIterator<'a>) -> ResourceLeaves<'a>
        ensures { walk_view result ≡ (data.entry.now, tree_leaves data.entry.now (entries_left types.entry)) }
    {
        ResourceLeaves::of_table(data, types.table())
    }

    /// The same with the bytes of the entries.
    #[tactic(auto, using(crate::proofs::Entries::entries_empty))]
    pub(crate) fn of_table(data: &'a [u8], types: &'a [u8]) -> ResourceLeaves<'a>
        ensures { walk_view result ≡ (data.entry.now, tree_leaves data.entry.now (entries types.entry.now)) }
    {
        ResourceLeaves {
            data_bytes: data,
            types,
            resource_type: ResourceEntry::default(),
            names: &[],
            name: ResourceEntry::default(),
            languages: &[],
        }
    }

    /// A walk without items.
    #[tactic(auto, using(crate::proofs::Entries::entries_empty))]
    pub(crate) fn empty() -> ResourceLeaves<'a>
        ensures { walk_view result ≡ ([], []) }
    {
        ResourceLeaves::of_table(&[], &[])
    }

    /// The data of the resource directory, from which the offsets of names count.
    pub fn data(&self) -> &'a [u8]
        ensures { result.now ≡ (walk_view self.now).0 }
    {
        self.data_bytes
    }
}

impl<'a> Iterator for ResourceLeaves<'a> {
    type Item = std::result::Result<ResourceLeaf, ResourceTreeError>;

    ghost next_gives = { YieldsFirstBy tree_answer leaves_left };

    ghost remaining = { item_count leaves_left };

    #[tactic(auto, using(crate::proofs::LeafWalks::no_leaf, crate::proofs::LeafWalks::next_language, crate::proofs::LeafWalks::next_name, crate::proofs::LeafWalks::next_type))]
    fn next(&mut self) -> Option<std::result::Result<ResourceLeaf, ResourceTreeError>> {
        if let Some((language, languages)) = first_entry(self.languages) {
            self.languages = languages;
            return Some(leaf_of(self.data_bytes, self.resource_type, self.name, language));
        }
        if let Some((name, names)) = first_entry(self.names) {
            let first = first_of_name(self.data_bytes, self.resource_type, name);
            self.names = names;
            self.name = name;
            self.languages = first.languages.of(self.data_bytes);
            return Some(first.item);
        }
        let (resource_type, types) = first_entry(self.types)?;
        let first = first_of_type(self.data_bytes, resource_type);
        self.types = types;
        self.resource_type = resource_type;
        self.names = first.names.of(self.data_bytes);
        self.name = first.name;
        self.languages = first.languages.of(self.data_bytes);
        Some(first.item)
    }
}
