//! Why a leaf of a resource tree is refused. Each function here says where what it reads is refused, if it is.

ghost use Rattle.std.specs.Prelude.{◌≡◌, Ok};
ghost use Rattle.std.specs.Option.{option_map};
ghost use Rattle.pe_core.specs.Offsets.{IsWithin};
ghost use Rattle.pe_resource.specs.LeafPositions.{IsPosition, first_below, first_in};
ghost use Rattle.calls_base.specs.FailureNumbers.{failure_by, tree_refused};
ghost use Rattle.calls_failures.specs.ResourceFailures.{by_languages, by_types, directory_refused_at, leaf_numbers, leaf_refused_at, name_holds, name_refused_at, names_refused_at, needed_of, of_name, range_outside};
ghost use Rattle.calls_directories.specs.ResourceLeaves.{first_item, items_left};
ghost use Rattle.calls_base.specs.Views.{map_of};

use calls_base::kept_sections::NO_SECTIONS;
use calls_base::numbers::{
    ErrorNumbers, Failure, failure_with, needed_at, no_numbers, numbers, tree_refused,
};
use calls_base::ranges::slice_of;
use calls_base::view::View;
use calls_directories::resources::leaves::{ResourceLeaves, next_leaf, position_of};
use pe_core::{ByteRange, TableEntry, read_u16, require_bytes};
use pe_resource::{ImageResourceDirectory, LeafPosition, ResourceEntry};

/// The size of a directory in bytes, without its entries.
const SIZE_OF_DIRECTORY: usize = 16;

/// The size of an entry in bytes.
const SIZE_OF_ENTRY: usize = 8;

/// The size of a data entry in bytes.
const SIZE_OF_DATA_ENTRY: usize = 16;

/// The size of the number of a name's code units in bytes.
const SIZE_OF_COUNT: usize = 2;

/// That so many bytes are needed at an offset of data that start at an offset of the file.
fn needed_of(start: u64, offset: usize, needed: usize) -> ErrorNumbers
    ensures { result ≡ needed_of start offset needed }
{
    needed_at((offset as u64).saturating_add(start), needed as u64)
}

/// Where the directory to which an entry leads is refused.
#[tactic(auto, unfolding(crate::specs::ResourceFailures::directory_refused_at))]
fn directory_refused_at(start: u64, data: &[u8], entry: ResourceEntry) -> ErrorNumbers
    ensures { result ≡ directory_refused_at start data.now entry }
{
    let offset = entry.offset_to_directory();
    let own = numbers(u64::from(offset), 0, 0);
    if !entry.data_is_directory() {
        return own;
    }
    let place = offset as usize;
    if require_bytes(data, place, SIZE_OF_DIRECTORY).is_err() {
        return needed_of(start, place, SIZE_OF_DIRECTORY);
    }
    let size = ImageResourceDirectory::at(data, place).entries_size();
    match require_bytes(data, place + SIZE_OF_DIRECTORY, size) {
        Ok(()) => own,
        Err(_) => needed_of(start, place + SIZE_OF_DIRECTORY, size),
    }
}

/// Whether the name of an entry is in the data, or it has none.
fn name_holds(data: &[u8], entry: ResourceEntry) -> bool
    ensures { result ≡ name_holds data.now entry }
{
    let place = entry.name_offset() as usize;
    if !entry.name_is_string() {
        return true;
    }
    if require_bytes(data, place, SIZE_OF_COUNT).is_err() {
        return false;
    }
    let size = 2 * usize::from(read_u16(data, place));
    require_bytes(data, place + SIZE_OF_COUNT, size).is_ok()
}

/// Where the name of an entry is truncated.
fn name_refused_at(start: u64, data: &[u8], entry: ResourceEntry) -> ErrorNumbers
    ensures { result ≡ name_refused_at start data.now entry }
{
    let place = entry.name_offset() as usize;
    match require_bytes(data, place, SIZE_OF_COUNT) {
        Ok(()) => {
            let size = 2 * usize::from(read_u16(data, place));
            needed_of(start, place + SIZE_OF_COUNT, size)
        }
        Err(_) => needed_of(start, place, SIZE_OF_COUNT),
    }
}

/// Where the first of three names is truncated.
fn names_refused_at(
    start: u64,
    data: &[u8],
    resource_type: ResourceEntry,
    name: ResourceEntry,
    language: ResourceEntry,
) -> ErrorNumbers
    ensures { result ≡ names_refused_at start data.now resource_type name language }
{
    if !name_holds(data, resource_type) {
        name_refused_at(start, data, resource_type)
    } else if !name_holds(data, name) {
        name_refused_at(start, data, name)
    } else {
        name_refused_at(start, data, language)
    }
}

/// Where the leaf of a language is refused.
#[tactic(auto, unfolding(crate::specs::ResourceFailures::leaf_refused_at))]
fn leaf_refused_at(
    start: u64,
    data: &[u8],
    resource_type: ResourceEntry,
    name: ResourceEntry,
    language: ResourceEntry,
) -> ErrorNumbers
    ensures { result ≡ leaf_refused_at start data.now resource_type name language }
{
    if language.data_is_directory() {
        return numbers(u64::from(language.offset_to_directory()), 0, 0);
    }
    let place = language.offset_to_data_or_directory as usize;
    match require_bytes(data, place, SIZE_OF_DATA_ENTRY) {
        Ok(()) => names_refused_at(start, data, resource_type, name, language),
        Err(_) => needed_of(start, place, SIZE_OF_DATA_ENTRY),
    }
}

/// The first entry of a table in the data.
fn first_in(data: &[u8], table: ByteRange) -> Option<ResourceEntry>
    requires { IsWithin data.now table }
    ensures { result ≡ option_map (λ x. x.0) (first_in data.now table) }
{
    if table.length < SIZE_OF_ENTRY {
        return None;
    }
    Some(ResourceEntry::at(table.of(data), 0))
}

/// The first entry of the directory to which an entry leads, unless that is refused.
#[tactic(auto, unfolding(pe_resource::specs::Leaves::table_below))]
fn first_below(data: &[u8], entry: ResourceEntry) -> Option<ResourceEntry>
    ensures { result ≡ option_map (λ x. x.0) (first_below data.now entry) }
{
    if !entry.data_is_directory() {
        return None;
    }
    let place = entry.offset_to_directory() as usize;
    require_bytes(data, place, SIZE_OF_DIRECTORY).ok()?;
    let table = ByteRange {
        offset: place + SIZE_OF_DIRECTORY,
        length: ImageResourceDirectory::at(data, place).entries_size(),
    };
    require_bytes(data, table.offset, table.length).ok()?;
    first_in(data, table)
}

/// Where the first leaf of a name is refused.
fn of_name(
    start: u64,
    data: &[u8],
    resource_type: ResourceEntry,
    name: ResourceEntry,
) -> ErrorNumbers
    ensures { result ≡ of_name start data.now resource_type name }
{
    match first_below(data, name) {
        Some(language) => leaf_refused_at(start, data, resource_type, name, language),
        None => directory_refused_at(start, data, name),
    }
}

/// Where the first leaf of the types that are left is refused.
fn by_types(start: u64, data: &[u8], types: ByteRange) -> ErrorNumbers
    requires { IsWithin data.now types }
    ensures { result ≡ by_types start data.now (first_in data.now types) }
{
    let Some(resource_type) = first_in(data, types) else {
        return no_numbers();
    };
    match first_below(data, resource_type) {
        Some(name) => of_name(start, data, resource_type, name),
        None => directory_refused_at(start, data, resource_type),
    }
}

/// Where the first leaf of a position is refused.
fn by_languages(start: u64, data: &[u8], position: &LeafPosition) -> ErrorNumbers
    requires { IsPosition data.now position.now }
    ensures { result ≡ by_languages start data.now position.now
        (first_in data.now position.now.languages) }
{
    if let Some(language) = first_in(data, position.languages) {
        return leaf_refused_at(start, data, position.resource_type, position.name, language);
    }
    match first_in(data, position.names) {
        Some(name) => of_name(start, data, position.resource_type, name),
        None => by_types(start, data, position.types),
    }
}

/// The first range of a position that is not in the data.
fn range_outside(data: &[u8], position: &LeafPosition) -> Option<ByteRange>
    ensures { result ≡ range_outside data.now position.now }
{
    if require_bytes(data, position.types.offset, position.types.length).is_err() {
        Some(position.types)
    } else if require_bytes(data, position.names.offset, position.names.length).is_err() {
        Some(position.names)
    } else if require_bytes(data, position.languages.offset, position.languages.length).is_err() {
        Some(position.languages)
    } else {
        None
    }
}

/// The numbers of the failure of the leaf that a walk is at.
#[tactic(auto, unfolding(crate::specs::ResourceFailures::leaf_numbers))]
pub fn leaf_numbers(bytes: &[u8], walk: &ResourceLeaves) -> ErrorNumbers
    ensures { result ≡ leaf_numbers bytes.now walk.now }
{
    let start = walk.tree.offset;
    let Ok(data) = slice_of(bytes, &walk.tree) else {
        return needed_at(start, walk.tree.length);
    };
    let position = position_of(walk);
    match range_outside(data, &position) {
        Some(range) => needed_of(start, range.offset, range.length),
        None => by_languages(start, data, &position),
    }
}

pub fn leaf_failure(view: &View, walk: &ResourceLeaves) -> Option<Failure>
    ensures { result ≡ failure_by (λ _. leaf_numbers view.now.bytes.now walk.now) (tree_refused
        (first_item (items_left view.now.bytes.now (map_of view.now) walk.now))) }
{
    let mut after = *walk;
    match tree_refused(next_leaf(view, NO_SECTIONS, &mut after)) {
        Some(number) => Some(failure_with(number, leaf_numbers(view.bytes, walk))),
        None => None,
    }
}
