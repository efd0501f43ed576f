//! The tables that head a directory with fields of their own: the export directory, and each directory of a resource tree. Walks
//! through exports and leaves return what these lead to; tools that show a file as it is show the fields too.
//! https://learn.microsoft.com/windows/win32/debug/pe-format#export-directory-table,
//! https://learn.microsoft.com/windows/win32/debug/pe-format#resource-directory-table

ghost use Rattle.std.specs.Prelude.{◌≡◌, ◌+◌, ◌≤◌, ◌^◌, Some, length};
ghost use Rattle.pe_core.specs.Refusals.{answer_by, answer_of};
ghost use Rattle.calls_directories.specs.DirectoryTables.{directory_with, item_in, export_directory_at, export_fields, next_item_of, resource_directory_at, root_at, root_of};
ghost use Rattle.calls_base.specs.Ranges.{range_of};
ghost use Rattle.calls_directories.specs.ResourceLeaves.{walk_at};
ghost use Rattle.calls_base.specs.Walks.{walk_of};
ghost use Rattle.calls_base.specs.Views.{directory_sections, map_of};

use crate::resources::leaves::{ResourceName, leaf_position, name_in};
use calls_base::image::{EXPORT_TABLE, RESOURCE_TABLE, directory, is_absent};
use calls_base::ranges::{Range, slice_of};
use calls_base::view::View;
use calls_base::walks::next_entry;
use pe_core::{ByteRange, ExportDirectoryTable, Result, RvaMap, TableEntry, require_bytes};
use pe_resource::{ImageResourceDirectory, LeafPosition, ResourceEntry};

// Sizes in bytes.
const SIZE_OF_EXPORT_DIRECTORY: usize = 40;

const SIZE_OF_RESOURCE_DIRECTORY: usize = 16;

const SIZE_OF_RESOURCE_ENTRY: usize = 8;

/// The export directory, `IMAGE_EXPORT_DIRECTORY`.
#[repr(C)]
#[derive(Clone, Copy)]
pub struct ExportFields {
    /// Reserved.
    pub characteristics: u32,
    /// Seconds since the start of 1970, or a hash.
    pub time_date_stamp: u32,
    pub major_version: u16,
    pub minor_version: u16,
    /// RVA of the DLL's name, or 0.
    pub name: u32,
    /// The ordinal of the first entry of the address table.
    pub base: u32,
    /// Entries of the address table.
    pub number_of_functions: u32,
    /// Entries of the name table, and of the table of indexes beside it.
    pub number_of_names: u32,
    /// RVA of the address table.
    pub address_of_functions: u32,
    /// RVA of the name table.
    pub address_of_names: u32,
    /// RVA of the table of indexes.
    pub address_of_name_ordinals: u32,
}

/// A directory of a resource tree, `IMAGE_RESOURCE_DIRECTORY`.
#[repr(C)]
#[derive(Clone, Copy)]
pub struct ResourceDirectory {
    /// Reserved.
    pub characteristics: u32,
    /// Seconds since the start of 1970, mostly 0.
    pub time_date_stamp: u32,
    pub major_version: u16,
    pub minor_version: u16,
    /// Entries with a name, which come first.
    pub number_of_named_entries: u16,
    /// Entries with an id.
    pub number_of_id_entries: u16,
    /// The entries, as a walk: of 65,535 at most.
    pub entries: Range,
}

/// An entry of such a directory, by its name.
#[repr(C)]
#[derive(Clone, Copy)]
pub struct ResourceItem {
    /// What names it.
    pub name: ResourceName,
    /// Where the directory is to which it leads, or the data entry, from the start of the tree on.
    pub offset: u32,
    /// 1 where it leads to a directory, else 0.
    pub is_directory: u32,
}

/// The fields of an export directory, by winnt.h's names.
fn export_fields(table: &ExportDirectoryTable) -> ExportFields
    ensures { result ≡ export_fields table.now }
{
    ExportFields {
        characteristics: table.characteristics,
        time_date_stamp: table.time_date_stamp,
        major_version: table.major,
        minor_version: table.minor,
        name: table.name_rva,
        base: table.ordinal_base,
        number_of_functions: table.address_table_entries,
        number_of_names: table.number_of_name_pointers,
        address_of_functions: table.address_table_rva,
        address_of_names: table.name_pointer_rva,
        address_of_name_ordinals: table.ordinal_table_rva,
    }
}

pub fn export_directory_at(view: &View) -> Result<Option<ExportFields>>
    ensures { answer_of result ≡ export_directory_at view.now.bytes.now view.now.image.now
        (map_of view.now) }
{
    let directory = directory(view.image, EXPORT_TABLE);
    if is_absent(directory) {
        return Ok(None);
    }
    let offset = view.file_offset(directory.virtual_address)?;
    require_bytes(view.bytes, offset, SIZE_OF_EXPORT_DIRECTORY)?;
    let table = ExportDirectoryTable::at(view.bytes, offset);
    Ok(Some(export_fields(&table)))
}

/// A directory with the range of its entries.
fn directory_with(directory: &ImageResourceDirectory, entries: Range) -> ResourceDirectory
    ensures { result ≡ directory_with directory.now entries }
{
    ResourceDirectory {
        characteristics: directory.characteristics,
        time_date_stamp: directory.time_date_stamp,
        major_version: directory.major_version,
        minor_version: directory.minor_version,
        number_of_named_entries: directory.number_of_named_entries,
        number_of_id_entries: directory.number_of_id_entries,
        entries,
    }
}

pub fn resource_directory_at(bytes: &[u8], tree: &Range, offset: usize) -> Result<ResourceDirectory>
    ensures { answer_of result ≡ resource_directory_at bytes.now tree.now offset }
{
    let data = slice_of(bytes, tree)?;
    require_bytes(data, offset, SIZE_OF_RESOURCE_DIRECTORY)?;
    let directory = ImageResourceDirectory::at(data, offset);
    let length = directory.entries_size();
    require_bytes(data, offset + SIZE_OF_RESOURCE_DIRECTORY, length)?;
    let entries = Range {
        offset: tree.offset + (offset + SIZE_OF_RESOURCE_DIRECTORY) as u64,
        length: length as u64,
    };
    Ok(directory_with(&directory, entries))
}

/// The first directory of the data at a range, before whose first leaf a walk stands at a position.
fn root_of(bytes: &[u8], tree: ByteRange, position: &LeafPosition) -> ResourceDirectory
    requires { tree.offset + 16 ≤ length bytes.now }
    ensures { result ≡ root_of bytes.now (walk_at (range_of tree) position.now) }
{
    let entries = Range {
        offset: (tree.offset + SIZE_OF_RESOURCE_DIRECTORY) as u64,
        length: position.types.length as u64,
    };
    directory_with(&ImageResourceDirectory::at(bytes, tree.offset), entries)
}

pub fn resource_root(view: &View) -> Result<Option<ResourceDirectory>>
    ensures { answer_of result ≡ root_at view.now.bytes.now view.now.image.now
        (directory_sections view.now 2) }
{
    let directory = directory(view.image, RESOURCE_TABLE);
    if is_absent(directory) {
        return Ok(None);
    }
    match leaf_position(view, directory)? {
        Some((data, position)) => Ok(Some(root_of(view.bytes, data, &position))),
        None => Ok(None),
    }
}

/// An entry by its name or id, in the data of a tree that start at a file offset.
fn item_reported(start: u64, data: &[u8], entry: ResourceEntry) -> Result<ResourceItem>
    requires { start ≤ 2 ^ 63 }
    ensures { answer_by (λ e. Some e) result ≡ item_in start data.now (Some entry) }
{
    Ok(ResourceItem {
        name: name_in(start, data, entry)?,
        offset: entry.offset_to_directory(),
        is_directory: u32::from(entry.data_is_directory()),
    })
}

pub fn next_resource_item(
    bytes: &[u8],
    tree: &Range,
    walk: &mut Range,
) -> Result<Option<ResourceItem>>
    ensures entry { answer_of result ≡ next_item_of bytes.now tree.now walk.old }
    ensures walk { walk.new ≡ walk_of 8 bytes.now walk.old }
{
    let left = next_entry(bytes, walk, SIZE_OF_RESOURCE_ENTRY);
    let data = slice_of(bytes, tree)?;
    match left? {
        Some(entry) => {
            let entry = ResourceEntry::at(entry, 0);
            Ok(Some(item_reported(tree.offset, data, entry)?))
        }
        None => Ok(None),
    }
}
