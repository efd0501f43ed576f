//! Why a directory of an image is refused, with the numbers of the error: where it is, how many bytes are needed, which RVA is
//! unmapped. The result of a call is one number. This call reads the directory again, and says the rest.

ghost use Rattle.std.specs.Prelude.{◌≡◌, Ok};
ghost use Rattle.calls_failures.specs.DirectoryFailures.{certificate_table, directory_numbers, directory_offset, directory_refusal, entries_size, is_there, missing_export, missing_table, needed_part, part, resource_end};
ghost use Rattle.calls_base.specs.FailureNumbers.{failure_by, refused};
ghost use Rattle.calls_failures.specs.ImageParts.{function_table};
ghost use Rattle.calls_directories.specs.ResourceLeaves.{leaves_start};
ghost use Rattle.calls_base.specs.Views.{directory_sections, map_of, may_map};

use crate::steps::certificate_numbers;
use calls_base::directories::table_at;
use calls_base::image::{
    BASE_RELOCATION_TABLE, CERTIFICATE_TABLE, DELAY_IMPORT_DESCRIPTOR, Image, RESOURCE_TABLE,
    directory, is_absent,
};
use calls_base::numbers::{
    CLR_HEADER_SIZE, DEBUG_BOUNDS, EXCEPTION_BOUNDS, EXCEPTION_OFFSET, EXCEPTION_SIZE,
    ErrorNumbers, Failure, RESOURCE_BOUNDS, SHORT, UNMAPPED, directory_refused, failure_with,
    needed_at, no_numbers, numbers, refused, refused_value, u32_there,
};
use calls_base::ranges::Range;
use calls_base::view::{View, map_by};
use calls_directories::directories::{bound_imports, certificates, clr, load_config, tls};
use calls_directories::names::{exports, imports};
use calls_directories::resources::leaves::leaf_position;
use calls_headers::debug;
use calls_unwind::arm64::functions;
use calls_unwind::unwinding;
use pe_core::{COFF_MACHINE_X86_64, DataDirectory, ExportDirectoryTable, read_u16, require_bytes};

/// The size of an export directory in bytes.
const SIZE_OF_EXPORT_DIRECTORY: usize = 40;

/// The size of a directory of resources in bytes.
const SIZE_OF_RESOURCE_DIRECTORY: u64 = 16;

/// What a directory needs: so many bytes at an RVA. Of bound imports that is a file offset.
#[derive(Clone, Copy)]
pub struct NeededPart {
    /// Where it is needed.
    pub rva: u32,
    /// In bytes.
    pub size: u64,
}

/// The certificate table as a walk at its start.
fn certificate_table(image: &Image) -> Range
    ensures { result ≡ certificate_table image.now }
{
    let directory = directory(image, CERTIFICATE_TABLE);
    Range {
        offset: u64::from(directory.virtual_address),
        length: u64::from(directory.size),
    }
}

/// What refuses the first directory of resources.
fn resource_refusal(view: &View) -> Option<u32>
    ensures { result ≡ refused (leaves_start view.now.bytes.now view.now.image.now
        (directory_sections view.now 2)) }
{
    let directory = directory(view.image, RESOURCE_TABLE);
    if is_absent(directory) {
        return None;
    }
    refused(leaf_position(view, directory))
}

/// What refuses the function table of an image for x64 or ARM64.
fn function_refusal(view: &View) -> Option<u32>
    ensures { result ≡ refused (function_table view.now.bytes.now view.now.image.now
        (directory_sections view.now 3)) }
{
    if view.image.machine == COFF_MACHINE_X86_64 {
        refused(unwinding::table_of(view))
    } else {
        refused(functions::table_of(view))
    }
}

/// What refuses the directory with an index.
#[tactic(auto, unfolding(crate::specs::DirectoryFailures::directory_refusal))]
pub fn directory_refusal(view: &View, index: u32) -> Option<u32>
    ensures { result ≡ directory_refusal index view.now.bytes.now view.now.image.now
        (may_map view.now) }
{
    match index {
        0 => refused(exports::tables_at(view)),
        1 => refused(imports::libraries_at(view)),
        2 => resource_refusal(view),
        3 => function_refusal(view),
        4 => refused(certificates::step(view.bytes, certificate_table(view.image)).0),
        5 => directory_refused(table_at(view, BASE_RELOCATION_TABLE)),
        6 => refused(debug::table_of(view)),
        9 => directory_refused(tls::tls_at(view)),
        10 => directory_refused(load_config::load_config_at(view)),
        11 => directory_refused(bound_imports::bound_imports_at(view)),
        13 => directory_refused(table_at(view, DELAY_IMPORT_DESCRIPTOR)),
        14 => directory_refused(clr::clr_header_at(view)),
        _ => None,
    }
}

fn part(rva: u32, size: u64) -> NeededPart
    ensures { result ≡ part rva size }
{
    NeededPart { rva, size }
}

/// Whether a part is there: its RVA is mapped, and its bytes are in the file. One without bytes is.
fn is_there(view: &View, part: &NeededPart) -> bool
    ensures { result ≡ is_there (map_of view.now)
        view.now.bytes.now part.now }
{
    if part.size == 0 {
        return true;
    }
    match map_by(view, part.rva) {
        Some(offset) => require_bytes(view.bytes, offset, part.size as usize).is_ok(),
        None => false,
    }
}

/// The first table of an export directory that is not there, of addresses, names and ordinals; or else the last.
fn missing_table(view: &View, exports: &ExportDirectoryTable) -> NeededPart
    ensures { result ≡ missing_table (map_of view.now)
        view.now.bytes.now exports.now }
{
    let names = u64::from(exports.number_of_name_pointers);
    let addresses = part(
        exports.address_table_rva,
        4 * u64::from(exports.address_table_entries),
    );
    if !is_there(view, &addresses) {
        return addresses;
    }
    let names_table = part(exports.name_pointer_rva, 4 * names);
    if !is_there(view, &names_table) {
        return names_table;
    }
    part(exports.ordinal_table_rva, 2 * names)
}

/// What is not there of an export directory at an RVA: the directory itself, or a table.
#[tactic(auto, unfolding(crate::specs::DirectoryFailures::missing_export))]
fn missing_export(view: &View, rva: u32) -> NeededPart
    ensures { result ≡ missing_export (map_of view.now)
        view.now.bytes.now rva }
{
    let Some(offset) = map_by(view, rva) else {
        return part(rva, SIZE_OF_EXPORT_DIRECTORY as u64);
    };
    match require_bytes(view.bytes, offset, SIZE_OF_EXPORT_DIRECTORY) {
        Ok(()) => missing_table(view, &ExportDirectoryTable::at(view.bytes, offset)),
        Err(_) => part(rva, SIZE_OF_EXPORT_DIRECTORY as u64),
    }
}

/// What the directory with an index needs: of exports the part that is not there.
#[tactic(auto, unfolding(crate::specs::DirectoryFailures::needed_part))]
fn needed_part(view: &View, index: u32) -> NeededPart
    ensures { result ≡ needed_part index view.now.bytes.now view.now.image.now
        (map_of view.now) }
{
    let DataDirectory {
        virtual_address,
        size,
    } = directory(view.image, index as usize);
    match index {
        0 => missing_export(view, virtual_address),
        2 => part(virtual_address, SIZE_OF_RESOURCE_DIRECTORY),
        9 => part(
            virtual_address,
            if view.image.width == 64 { 40 } else { 24 },
        ),
        10 => part(virtual_address, 4),
        14 => part(virtual_address, 72),
        _ => part(virtual_address, u64::from(size)),
    }
}

/// Where an RVA of the directory with an index is in the file, 0 where it is unmapped. Those of bound imports are offsets.
fn directory_offset(view: &View, index: u32, rva: u32) -> u64
    ensures { result ≡ directory_offset index (map_of view.now) rva }
{
    if index == 11 {
        return u64::from(rva);
    }
    map_by(view, rva).unwrap_or(0) as u64
}

/// The size of the entries of the first directory of resources, which is at an offset.
fn entries_size(bytes: &[u8], offset: usize) -> u64
    ensures { result ≡ entries_size bytes.now offset }
{
    match require_bytes(bytes, offset, SIZE_OF_RESOURCE_DIRECTORY as usize) {
        Ok(()) => {
            let named = read_u16(bytes, offset + 12);
            8 * u64::from(named.saturating_add(read_u16(bytes, offset + 14)))
        }
        Err(_) => 0,
    }
}

/// Where resources at an offset end, of which there are so many bytes.
fn resource_end(bytes: &[u8], offset: u64, size: u32) -> u64
    ensures { result ≡ resource_end bytes.now offset size }
{
    match require_bytes(bytes, offset as usize, size as usize) {
        Ok(()) => {
            let entries = entries_size(bytes, offset as usize);
            offset.saturating_add(SIZE_OF_RESOURCE_DIRECTORY + entries)
        }
        Err(_) => offset.saturating_add(u64::from(size)),
    }
}

/// The numbers of the failure of the directory with an index.
#[tactic(auto, unfolding(crate::specs::DirectoryFailures::directory_numbers))]
pub fn directory_numbers(view: &View, index: u32, number: u32) -> ErrorNumbers
    ensures { result ≡ directory_numbers index view.now.bytes.now view.now.image.now
        (map_of view.now) number }
{
    if index == 4 {
        return certificate_numbers(view.bytes, &certificate_table(view.image), number);
    }
    let DataDirectory {
        virtual_address,
        size,
    } = directory(view.image, index as usize);
    let offset = directory_offset(view, index, virtual_address);
    let needed = needed_part(view, index);
    match number {
        SHORT => needed_at(directory_offset(view, index, needed.rva), needed.size),
        UNMAPPED => refused_value(u64::from(needed.rva)),
        EXCEPTION_SIZE => refused_value(u64::from(size)),
        EXCEPTION_OFFSET => numbers(offset, 0, 0),
        DEBUG_BOUNDS | EXCEPTION_BOUNDS => { numbers(offset.saturating_add(u64::from(size)), 0, 0) }
        RESOURCE_BOUNDS => numbers(resource_end(view.bytes, offset, size), 0, 0),
        CLR_HEADER_SIZE => refused_value(u64::from(u32_there(view.bytes, offset as usize))),
        _ => no_numbers(),
    }
}

/// The failure of the directory with an index.
pub fn directory_failure(view: &View, index: u32) -> Option<Failure>
    ensures { result ≡ failure_by
        (directory_numbers index view.now.bytes.now view.now.image.now (map_of view.now))
        (directory_refusal index view.now.bytes.now view.now.image.now (may_map view.now)) }
{
    match directory_refusal(view, index) {
        Some(number) => Some(failure_with(number, directory_numbers(view, index, number))),
        None => None,
    }
}
