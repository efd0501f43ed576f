//! The address table of the export directory: all exports by their index, also those that have no name. The ordinal of an
//! export is its index plus the directory's base. An RVA inside the directory is that of a forwarder's text, such as
//! `NTDLL.RtlAllocateHeap`: the name of another DLL's export.
//! https://learn.microsoft.com/windows/win32/debug/pe-format#export-address-table

ghost use Rattle.std.specs.Prelude.{◌≡◌, ◌<◌, ◌-◌, ◌^◌, IfSome};
ghost use Rattle.pe_core.specs.ExportAddresses.{addresses_view};
ghost use Rattle.pe_core.specs.Exports.{export_data_view};
ghost use Rattle.pe_core.specs.Refusals.{answer_of};
ghost use Rattle.calls_directories.specs.ExportAddresses.{address_table, address_table_at, addresses_in, dll_name, exported_with, exported_at, exported_in, text_range};
ghost use Rattle.calls_base.specs.Ranges.{or_no_bytes};
ghost use Rattle.calls_base.specs.NearMaps.{IsWindow};
ghost use Rattle.calls_base.specs.Views.{map_of};
ghost use Rattle.calls_base.specs.Images.{export_directory};

use crate::names::exports::{export_data, export_table};
use calls_base::image::{EXPORT_TABLE, directory, is_absent};
use calls_base::named_view::NamedView;
use calls_base::near_map::{NO_WINDOW, Window, map_in};
use calls_base::ranges::{NO_BYTES, Range, slice_of};
use calls_base::view::{View, map_by};
use pe_core::{DataDirectory, ExportAddress, ExportAddresses, ExportData, Result};

/// The address table of an export directory, and what it takes to read it.
#[repr(C)]
#[derive(Clone, Copy)]
pub struct AddressTable {
    /// The DLL's name: UTF-8, without its final zero. Empty where `has_name` is 0.
    pub name: Range,
    /// RVAs of what is exported, 4 bytes each.
    pub addresses: Range,
    /// The export directory: an RVA inside it is that of a forwarder's text.
    pub directory: DataDirectory,
    /// The ordinal of the first entry.
    pub ordinal_base: u32,
    /// 1 where the directory has a name that is mapped and is text, else 0.
    pub has_name: u32,
}

/// An entry of the address table.
#[repr(C)]
#[derive(Clone, Copy)]
pub struct Exported {
    /// A forwarder's text: UTF-8, without its final zero. Empty where `is_forwarder` is 0, or where no text is there.
    pub forwarder: Range,
    /// The ordinal: the index plus the base.
    pub ordinal: u64,
    /// RVA of what is exported, or of the forwarder's text; 0 where the ordinal is not used.
    pub rva: u32,
    /// 1 where the RVA lies in the export directory, else 0.
    pub is_forwarder: u32,
}

/// The range of the DLL's name. The RVA 0 is that of none.
fn dll_name(view: &View, rva: u32) -> Option<Range>
    ensures { result ≡ dll_name (map_of view.now) view.now.bytes.now rva }
{
    if rva == 0 {
        return None;
    }
    NamedView::alone(view).range_at(map_by(view, rva))
}

/// The address table of export data.
fn table_of(view: &View, export_data: &ExportData) -> AddressTable
    ensures { result ≡ address_table (map_of view.now) view.now.bytes.now
        (export_directory view.now.image.now) (export_data_view export_data.now) }
{
    let fields = &export_data.directory;
    let size = 4 * u64::from(fields.address_table_entries);
    let name = dll_name(view, fields.name_rva);
    AddressTable {
        name: name.unwrap_or(NO_BYTES),
        addresses: export_table(view, fields.address_table_rva, size),
        directory: directory(view.image, EXPORT_TABLE),
        ordinal_base: fields.ordinal_base,
        has_name: u32::from(name.is_some()),
    }
}

#[tactic(auto, unfolding(crate::specs::ExportAddresses::address_table_at))]
pub fn table_at(view: &View) -> Result<Option<AddressTable>>
    ensures { answer_of result ≡ address_table_at view.now.bytes.now view.now.image.now
        (map_of view.now) }
{
    let directory = directory(view.image, EXPORT_TABLE);
    if is_absent(directory) {
        return Ok(None);
    }
    let export_data = export_data(view, directory)?;
    Ok(Some(table_of(view, &export_data)))
}

/// The range of a forwarder's text, empty where no text is there. Out of line, since few exports are forwarders.
#[cold]
#[inline(never)]
fn forwarder_of(names: &NamedView<'_>, near: &Window, rva: u32) -> Range
    requires { IsWindow (map_of names.now.view.now) near.now }
    ensures { result ≡ or_no_bytes (text_range
        (map_of names.now.view.now) names.now.view.now.bytes.now rva) }
{
    names
        .range_at(map_in(names.view, rva, near))
        .unwrap_or(NO_BYTES)
}

/// The entry of an export, with the range of a forwarder's text.
#[inline(always)]
fn exported_with(names: &NamedView<'_>, near: &Window, address: ExportAddress) -> Exported
    requires { IsWindow (map_of names.now.view.now) near.now }
    ensures { result ≡ exported_with
        (map_of names.now.view.now) names.now.view.now.bytes.now address }
{
    let (forwarder, is_forwarder) = if address.is_forwarder {
        (forwarder_of(names, near, address.rva), 1)
    } else {
        (NO_BYTES, 0)
    };
    Exported {
        forwarder,
        ordinal: address.ordinal,
        rva: address.rva,
        is_forwarder,
    }
}

/// An address table whose bytes are these. It has no names.
#[inline(always)]
pub fn addresses_in<'a>(table: &AddressTable, addresses: &'a [u8]) -> ExportAddresses<'a>
    ensures { addresses_view result ≡ addresses_in table.now addresses.entry.now }
{
    ExportAddresses {
        addresses,
        names: &[],
        ordinals: &[],
        directory: table.directory,
        ordinal_base: table.ordinal_base,
    }
}

/// The entry of such a table with an index, if it has one. Forwarders are mapped by the window, if they lie in it.
#[inline(always)]
pub fn exported_in(
    names: &NamedView<'_>,
    near: &Window,
    addresses: &ExportAddresses<'_>,
    index: u64,
) -> Option<Exported>
    requires { IsWindow (map_of names.now.view.now) near.now }
    ensures entry { result ≡ exported_in (map_of names.now.view.now)
        names.now.view.now.bytes.now (addresses_view addresses.now) index }
    ensures small { IfSome result (λ _. index < 2 ^ 64 - 1) }
{
    match addresses.at(index as usize) {
        Some(address) => Some(exported_with(names, near, address)),
        None => None,
    }
}

/// The entry of a table with an index, if the table has it.
#[tactic(auto, using(calls_base::proofs::NearMaps::no_window))]
pub fn exported_at(
    names: &NamedView<'_>,
    table: &AddressTable,
    index: u64,
) -> Result<Option<Exported>>
    ensures { answer_of result ≡ exported_at
        (map_of names.now.view.now) names.now.view.now.bytes.now table.now index }
{
    let addresses = slice_of(names.view.bytes, &table.addresses)?;
    let addresses = addresses_in(table, addresses);
    Ok(exported_in(names, &NO_WINDOW, &addresses, index))
}
