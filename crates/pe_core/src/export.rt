//! Exports: the export directory with its three tables, and the list of the exports that have names
//! ([layout](https://learn.microsoft.com/windows/win32/debug/pe-format#the-edata-section-image-only)). The name table
//! and the ordinal table go in parallel: one has the RVA of a name, the other its index into the address table. A
//! caller parses `ExportData` from data directory 0, and lists it by `Export::parse_with_opts`.

ghost use Rattle.std.specs.Prelude.{◌≡◌, ◌*◌, ◌+◌, ◌/◌, ◌≤◌, length, map, IfErr, IfOk, Ok};
ghost use Rattle.std.specs.Option.{option_and_then, option_map};
ghost use Rattle.pe_core.specs.Bytes.{le};
ghost use Rattle.pe_core.specs.ExportSteps.{exports_from};
ghost use Rattle.pe_core.specs.Exports.{export_data_view, export_data_at, export_view, exports, image_name, table_at, table_entry, named_export};
ghost use Rattle.pe_core.specs.Options.{default_options};
ghost use Rattle.pe_core.specs.Refusals.{IfMemory, ReturnsAs, ReturnsUnlessMemory};
ghost use Rattle.pe_core.specs.Rows.{each};
ghost use Rattle.pe_core.specs.SectionIndex.{offset_or_end};
ghost use Rattle.pe_core.specs.SectionMap.{offset_in, section_map};
ghost use Rattle.pe_core.specs.SectionWindow.{IsWindow};
ghost use Rattle.pe_core.specs.Text.{texts_of};

use crate::bytes::{read_u16, read_u32, require_bytes, slice_at, u32_at};
use crate::data_directories::DataDirectory;
use crate::error::Result;
use crate::many_texts::texts_at;
use crate::mapped_bytes::MappedBytes;
use crate::options::ParseOptions;
use crate::rva_map::RvaMap;
use crate::section_index::{SectionIndex, SectionMap};
use crate::section_table::SectionTable;
use crate::section_window::Window;
use crate::text::text_at;
use std::alloc::{AllocError, Allocator};

/// The size of an export directory in bytes.
const SIZE_OF_EXPORT_DIRECTORY: usize = 40;

/// The size of an entry of the name table in bytes.
const SIZE_OF_NAME: usize = 4;

/// The export directory (`IMAGE_EXPORT_DIRECTORY`), 40 bytes.
#[derive(Clone, Copy, Debug, PartialEq)]
pub struct ExportDirectoryTable {
    /// Reserved.
    pub characteristics: u32,
    /// Seconds since the start of 1970, or a hash.
    pub time_date_stamp: u32,
    /// The major version number.
    pub major: u16,
    /// The minor version number.
    pub minor: u16,
    /// The RVA of the image's name, or 0.
    pub name_rva: u32,
    /// The ordinal of the first entry of the address table. Add it to an index into that table for the ordinal of an
    /// export.
    pub ordinal_base: u32,
    /// The number of entries of the address table, 4 bytes each.
    pub address_table_entries: u32,
    /// The number of entries of the name table, 4 bytes each, and of the ordinal table, 2 bytes each.
    pub number_of_name_pointers: u32,
    /// The RVA of the address table.
    pub address_table_rva: u32,
    /// The RVA of the name table.
    pub name_pointer_rva: u32,
    /// The RVA of the ordinal table.
    pub ordinal_table_rva: u32,
}

impl ExportDirectoryTable {
    ghost use Rattle.pe_core.specs.Records.{export_directory};

    /// The export directory at `offset`, whose 40 bytes the caller knows to lie in `bytes`.
    #[tactic(auto, unfolding(crate::specs::Records::export_directory))]
    pub fn at(bytes: &[u8], offset: usize) -> ExportDirectoryTable
        requires { offset + 40 ≤ length bytes.now }
        ensures { result ≡ export_directory bytes.now offset }
    {
        ExportDirectoryTable {
            characteristics: read_u32(bytes, offset),
            time_date_stamp: read_u32(bytes, offset + 4),
            major: read_u16(bytes, offset + 8),
            minor: read_u16(bytes, offset + 10),
            name_rva: read_u32(bytes, offset + 12),
            ordinal_base: read_u32(bytes, offset + 16),
            address_table_entries: read_u32(bytes, offset + 20),
            number_of_name_pointers: read_u32(bytes, offset + 24),
            address_table_rva: read_u32(bytes, offset + 28),
            name_pointer_rva: read_u32(bytes, offset + 32),
            ordinal_table_rva: read_u32(bytes, offset + 36),
        }
    }
}

/// The image's name, if it has one.
fn image_name<'a, R: RvaMap>(bytes: &'a [u8], rva: u32, map: &R) -> Option<&'a str>
    ensures { option_map
        (λ s. s.now) result ≡ image_name (R.offset map.now) bytes.entry.now rva }
{
    if rva == 0 {
        return None;
    }
    match map.file_offset(rva) {
        Ok(offset) => text_at(bytes, offset),
        Err(_) => None,
    }
}

/// The table of `size` bytes at this RVA. An empty table has no RVA to map.
fn table_at<'a, R: RvaMap>(bytes: &'a [u8], rva: u32, size: usize, map: &R) -> Result<&'a [u8]>
    ensures { ReturnsAs
        (λ s. s.now) result (table_at (R.offset map.now) bytes.entry.now rva size) }
{
    if size == 0 {
        return Ok(&[]);
    }
    let offset = map.file_offset(rva)?;
    slice_at(bytes, offset, size)
}

/// The export directory of an image and its three tables.
#[derive(Debug, Drop)]
pub struct ExportData<'a> {
    /// The 40 bytes of the directory itself.
    pub directory: ExportDirectoryTable,
    /// The image's name. `None` if its RVA is 0 or unmapped, or if it is not NUL-terminated or not UTF-8.
    pub name: Option<&'a str>,
    /// The address table: 4 bytes an entry, the RVA of an export.
    pub addresses: &'a [u8],
    /// The name table: 4 bytes an entry, the RVA of a name.
    pub names: &'a [u8],
    /// The ordinal table: 2 bytes an entry, the index into the address table that belongs to the name of the same
    /// index.
    pub ordinals: &'a [u8],
}

impl<'a> ExportData<'a> {
    /// The export directory, with the default options. Errors: those of `parse_with_opts`.
    pub fn parse(
        bytes: &'a [u8],
        directory: DataDirectory,
        sections: &[SectionTable],
        file_alignment: u32,
    ) -> Result<ExportData<'a>>
        ensures { ReturnsAs export_data_view result (export_data_at (section_map default_options
            sections.now file_alignment) bytes.entry.now directory.virtual_address) }
    {
        ExportData::parse_with_opts(
            bytes,
            directory,
            sections,
            file_alignment,
            &ParseOptions::default(),
        )
    }

    /// The export directory. The size of `directory` isn't used. Errors, in order:
    /// - `Unmapped`, `Short`: the 40 bytes at the RVA of `directory`;
    /// - `Unmapped`, `Short`: the address table, then the name table, then the ordinal table. A table without entries
    ///   is empty, whatever its RVA.
    pub fn parse_with_opts(
        bytes: &'a [u8],
        directory: DataDirectory,
        sections: &[SectionTable],
        file_alignment: u32,
        opts: &ParseOptions,
    ) -> Result<ExportData<'a>>
        ensures { ReturnsAs export_data_view result (export_data_at (section_map
            opts.now sections.now file_alignment) bytes.entry.now directory.virtual_address) }
    {
        let sections = SectionMap::new(sections, file_alignment, opts);
        ExportData::parse_with_map(bytes, directory, &sections)
    }

    /// The export directory, as `parse_with_opts` returns it, by any map of RVAs: the section map is one.
    #[tactic(auto, unfolding(crate::specs::Exports::export_data_at))]
    pub fn parse_with_map<R: RvaMap>(
        bytes: &'a [u8],
        directory: DataDirectory,
        map: &R,
    ) -> Result<ExportData<'a>>
        ensures { ReturnsAs export_data_view result
            (export_data_at (R.offset map.now) bytes.entry.now directory.virtual_address) }
    {
        let offset = map.file_offset(directory.virtual_address)?;
        require_bytes(bytes, offset, SIZE_OF_EXPORT_DIRECTORY)?;
        let directory = ExportDirectoryTable::at(bytes, offset);
        let size = 4 * directory.address_table_entries as usize;
        let rva = directory.address_table_rva;
        let addresses = table_at(bytes, rva, size, map)?;
        let count = directory.number_of_name_pointers as usize;
        let rva = directory.name_pointer_rva;
        let names = table_at(bytes, rva, 4 * count, map)?;
        let rva = directory.ordinal_table_rva;
        let ordinals = table_at(bytes, rva, 2 * count, map)?;
        Ok(ExportData {
            directory,
            name: image_name(bytes, directory.name_rva, map),
            addresses,
            names,
            ordinals,
        })
    }
}

/// An export that has a name.
#[derive(Debug, Drop)]
pub struct Export<'a> {
    /// The name, without its NUL.
    pub name: &'a str,
    /// The RVA of what is exported. Of a forwarder it is the RVA of the forwarder's text, which lies in the export
    /// directory.
    pub rva: u32,
    /// The file offset of `rva`. `None` if it is unmapped.
    pub offset: Option<usize>,
}

/// The index into the address table for entry `i` of the name table.
fn ordinal_of(ordinals: &[u8], i: usize) -> Option<u16>
    ensures { result ≡ table_entry 2 ordinals.now i }
{
    if i < ordinals.len() / 2 {
        Some(read_u16(ordinals, 2 * i))
    } else {
        None
    }
}

/// The RVA at this index of the address table.
fn address_of(addresses: &[u8], ordinal: u16) -> Option<u32>
    ensures { result ≡ table_entry 4 addresses.now ordinal }
{
    u32_at(addresses, 4 * ordinal as usize).ok()
}

/// The export of entry `i` of the name table, which has this name.
fn named_export<'a>(
    name: Option<&'a str>,
    i: usize,
    export_data: &ExportData<'_>,
    sections: &SectionMap<'_>,
    window: &mut Window,
) -> Option<Export<'a>>
    requires { IsWindow sections.now window.old }
    ensures window { IsWindow sections.now window.new }
    ensures export { option_map export_view result ≡ option_and_then
        (named_export (offset_in sections.now) (export_data_view export_data.now) i)
        (option_map (λ s. s.now) name.entry) }
{
    let name = name?;
    let ordinal = ordinal_of(export_data.ordinals, i)?;
    let rva = address_of(export_data.addresses, ordinal)?;
    Some(Export {
        name,
        rva,
        offset: sections.find_near(rva, window),
    })
}

/// The exports of the entries of the name table, which have these names.
fn named_exports<'a, A: Allocator>(
    alloc: A,
    names: &[Option<&'a str>],
    export_data: &ExportData<'_>,
    sections: &SectionMap<'_>,
) -> Result<Vec<Export<'a>, A>>
    ensures { ReturnsUnlessMemory (λ v. map export_view v.items) result (Ok (exports_from
        (offset_in sections.now) (export_data_view export_data.now) 0 (texts_of names.now))) }
{
    let mut exports = Vec::with_capacity(alloc, names.len())?;
    let mut window = sections.no_window();
    for (i, name) in names.iter().enumerate() {
        if let Some(export) = named_export(*name, i, export_data, sections, &mut window) {
            exports.push(export)?;
        }
    }
    Ok(exports)
}

/// The offsets of the names, by the name table.
#[tactic(auto, unfolding(crate::specs::Rows::each))]
fn name_offsets<A: Allocator>(
    alloc: A,
    names: &[u8],
    sections: &SectionMap<'_>,
) -> std::result::Result<Vec<usize, A>, AllocError>
    ensures { IfOk result (λ v. v.items ≡ each (λ i.
        offset_or_end (offset_in sections.now (le names.now (4 * i) 4))) (length names.now / 4)) }
{
    let count = names.len() / 4;
    let mut offsets = Vec::with_capacity(alloc, count)?;
    let mut window = sections.no_window();
    for i in 0..count {
        let offset = sections.find_near(read_u32(names, 4 * i), &mut window);
        offsets.push(offset.unwrap_or(usize::MAX))?;
    }
    Ok(offsets)
}

impl<'a> Export<'a> {
    /// The exports that have names, in the order of the name table. An entry is skipped if its name is unmapped, not
    /// NUL-terminated or not UTF-8, or if its index in the ordinal table is past the address table. Error: `Memory`, if there is
    /// an entry: without one no memory is asked for.
    #[tactic(auto, using(crate::proofs::ExportLists::none_named))]
    pub fn parse_with_opts<A: Allocator + Copy + Drop>(
        alloc: A,
        bytes: &'a [u8],
        export_data: &ExportData<'_>,
        sections: &[SectionTable],
        file_alignment: u32,
        opts: &ParseOptions,
    ) -> Result<Vec<Export<'a>, A>>
        ensures exports { ReturnsUnlessMemory (λ v. map export_view v.items) result
            (Ok (exports (section_map opts.now sections.now file_alignment) bytes.entry.now
            (export_data_view export_data.now))) }
        ensures memory { IfErr result (λ error. IfMemory error (4 ≤ length export_data.now.names.now)) }
    {
        if export_data.names.len() < SIZE_OF_NAME {
            return Ok(Vec::new(alloc));
        }
        let index = SectionIndex::new(alloc, sections, file_alignment, opts)?;
        let map = index.map();
        Export::parse_with_map(alloc, &MappedBytes { bytes, map }, export_data)
    }

    /// The exports that have names, as `parse_with_opts` lists them, by a section map.
    #[tactic(auto, using(crate::proofs::ExportLists::listed, crate::proofs::ExportLists::none_named, crate::proofs::NoMemory::asked))]
    pub fn parse_with_map<A: Allocator + Copy + Drop>(
        alloc: A,
        image: &MappedBytes<'a, '_>,
        export_data: &ExportData<'_>,
    ) -> Result<Vec<Export<'a>, A>>
        ensures exports { ReturnsUnlessMemory (λ v. map export_view v.items) result (Ok (exports
            (offset_in image.now.map) image.now.bytes.now (export_data_view export_data.now))) }
        ensures memory { IfErr result (λ error. IfMemory error (4 ≤ length export_data.now.names.now)) }
    {
        if export_data.names.len() < SIZE_OF_NAME {
            return Ok(Vec::new(alloc));
        }
        let offsets = name_offsets(alloc, export_data.names, &image.map)?;
        // All names at once: many of them may lie in one long text.
        let names = texts_at(alloc, image.bytes, &offsets)?;
        named_exports(alloc, &names, export_data, &image.map)
    }
}
