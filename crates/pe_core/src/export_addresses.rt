//! The address table of the export directory: all exports by their index, also those that have no name
//! ([layout](https://learn.microsoft.com/windows/win32/debug/pe-format#export-address-table)). The ordinal of an export
//! is its index plus the directory's base. An RVA inside the directory is that of a forwarder's text, such as
//! `NTDLL.RtlAllocateHeap`: the name of another DLL's export. A caller takes `ExportAddresses` of its `ExportData`, goes
//! over them by `iter`, and reads the names that lead to them by `name_at`.

ghost use Rattle.std.specs.Prelude.{◌≡◌, ◌+◌, ◌*◌, ◌/◌, ◌≤◌, ◌==◌, length, IfSome, Some};
ghost use Rattle.std.specs.Iterator.{UpTo, YieldsFirst, item_count};
ghost use Rattle.std.specs.Iterator.SizeHint.{IsWithinCount};
ghost use Rattle.std.specs.Option.{option_map};
ghost use Rattle.pe_core.specs.Bytes.{le};
ghost use Rattle.pe_core.specs.ExportAddresses.{address_at, address_with, addresses_from, addresses_left, addresses_of, addresses_view, forwarder_text, lies_in, name_at, name_view};
ghost use Rattle.pe_core.specs.Exports.{export_data_view};
ghost use Rattle.pe_core.specs.SectionMap.{offset_in};

use crate::bytes::{read_u16, read_u32};
use crate::data_directories::DataDirectory;
use crate::export::ExportData;
use crate::mapped_bytes::MappedBytes;
use crate::text::text_at;

/// The address table of an export directory, and the two tables of names that lead into it.
#[derive(Clone, Copy)]
pub struct ExportAddresses<'a> {
    /// The address table: 4 bytes an entry, the RVA of an export.
    pub addresses: &'a [u8],
    /// The name table: 4 bytes an entry, the RVA of a name.
    pub names: &'a [u8],
    /// The ordinal table: 2 bytes an entry, the index into the address table that belongs to the name of the same
    /// index.
    pub ordinals: &'a [u8],
    /// The export directory: an RVA inside it is that of a forwarder's text.
    pub directory: DataDirectory,
    /// The ordinal of the first entry of the address table.
    pub ordinal_base: u32,
}

/// An export, by its index in the address table.
#[derive(Clone, Copy, Debug, PartialEq)]
pub struct ExportAddress {
    /// The ordinal: the index plus the base. It may pass a `u32` in an invalid image.
    pub ordinal: u64,
    /// The RVA of what is exported, or of the forwarder's text; 0 if the ordinal is not used.
    pub rva: u32,
    /// Whether the RVA lies in the export directory.
    pub is_forwarder: bool,
}

/// An entry of the name table.
#[derive(Clone, Copy)]
pub struct ExportName<'a> {
    /// The name, without its NUL.
    pub name: &'a str,
    /// The index into the address table to which it leads. The table may be shorter.
    pub index: u16,
}

/// Whether an RVA lies in a directory.
pub fn lies_in(directory: DataDirectory, rva: u32) -> bool
    ensures { result ≡ lies_in directory rva }
{
    let end = u64::from(directory.virtual_address) + u64::from(directory.size);
    directory.virtual_address <= rva && u64::from(rva) < end
}

impl<'a> ExportAddresses<'a> {
    /// The address table of export data. `directory` is the data directory that it was parsed from.
    pub fn new(export_data: &ExportData<'a>, directory: DataDirectory) -> Self
        ensures { addresses_view result ≡ addresses_of directory (export_data_view export_data.now) }
    {
        ExportAddresses {
            addresses: export_data.addresses,
            names: export_data.names,
            ordinals: export_data.ordinals,
            directory,
            ordinal_base: export_data.directory.ordinal_base,
        }
    }

    /// The number of exports, those without a name included.
    pub fn len(&self) -> usize
        ensures { result ≡ length self.now.addresses.now / 4 }
    {
        self.addresses.len() / 4
    }

    /// Whether there are no exports.
    pub fn is_empty(&self) -> bool
        ensures { result ≡ (length self.now.addresses.now / 4 == 0) }
    {
        self.len() == 0
    }

    /// The export with this index. `None` if it is not below `len()`.
    pub fn at(&self, index: usize) -> Option<ExportAddress>
        ensures { result ≡ address_at (addresses_view self.now) index }
    {
        if index < self.len() {
            Some(self.known_at(index))
        } else {
            None
        }
    }

    /// The export with an index that the table is known to have.
    fn known_at(&self, index: usize) -> ExportAddress
        requires { 4 * index + 4 ≤ length self.now.addresses.now }
        ensures { result ≡ address_with
            (addresses_view self.now) index (le self.now.addresses.now (4 * index) 4) }
    {
        let rva = read_u32(self.addresses, 4 * index);
        ExportAddress {
            ordinal: u64::from(self.ordinal_base) + index as u64,
            rva,
            is_forwarder: lies_in(self.directory, rva),
        }
    }

    /// The exports in the order of the table. It reads 4 bytes for each.
    pub fn iter(&self) -> ExportAddressIterator<'a>
        ensures { addresses_left result ≡ addresses_from (addresses_view self.now) 0 }
    {
        ExportAddressIterator {
            table: *self,
            next: 0,
        }
    }

    /// The text of the forwarder at this RVA, without its NUL. `None` if the RVA does not lie in the export directory or
    /// is unmapped, or if the text is not NUL-terminated or not UTF-8. The text is read up to its NUL, also where
    /// that lies past the end of the directory.
    pub fn forwarder<'b>(&self, rva: u32, image: &MappedBytes<'b, '_>) -> Option<&'b str>
        ensures { option_map (λ s. s.now) result ≡ forwarder_text
            (offset_in image.now.map) image.now.bytes.now self.now.directory rva }
    {
        if !lies_in(self.directory, rva) {
            return None;
        }
        let offset = image.map.find(rva as usize)?;
        text_at(image.bytes, offset)
    }

    /// The entry of the name table with this index, which counts names. `None` if there is no such entry, or none of the
    /// ordinal table, or if the name is unmapped, not NUL-terminated or not UTF-8. The name is read to its
    /// end; `Export::parse_with_opts` reads all names at once, also where they overlap.
    pub fn name_at<'b>(&self, index: usize, image: &MappedBytes<'b, '_>) -> Option<ExportName<'b>>
        ensures { option_map name_view result ≡ name_at
            (offset_in image.now.map) image.now.bytes.now (addresses_view self.now) index }
    {
        if self.names.len() / 4 <= index || self.ordinals.len() / 2 <= index {
            return None;
        }
        let offset = image.map.find(read_u32(self.names, 4 * index) as usize)?;
        Some(ExportName {
            name: text_at(image.bytes, offset)?,
            index: read_u16(self.ordinals, 2 * index),
        })
    }
}

/// The exports that are left of an address table.
#[derive(Clone, Drop)]
pub struct ExportAddressIterator<'a> {
    table: ExportAddresses<'a>,
    next: usize,
}

impl<'a> Iterator for ExportAddressIterator<'a> {
    type Item = ExportAddress;

    ghost next_gives = { YieldsFirst addresses_left };

    ghost remaining = { item_count addresses_left };

    #[tactic(auto, using(crate::proofs::AddressLists::addresses_more, crate::proofs::AddressLists::addresses_none))]
    fn next(&mut self) -> Option<ExportAddress> {
        if self.table.len() <= self.next {
            return None;
        }
        let address = self.table.known_at(self.next);
        self.next += 1;
        Some(address)
    }

    fn size_hint(&self) -> (usize, Option<usize>)
        ensures lower { IsWithinCount result.0 (item_count addresses_left self.now) }
        ensures upper { IfSome result.1 (UpTo (item_count addresses_left self.now)) }
        ensures exact { result ≡ (
          length (addresses_left self.now),
          Some (length (addresses_left self.now)),
        ) }
    {
        let addresses = self.len();
        (addresses, Some(addresses))
    }
}

impl<'a> ExactSizeIterator for ExportAddressIterator<'a> {
    fn len(&self) -> usize
        ensures { result ≡ length (addresses_left self.now) }
    {
        self.table.len().saturating_sub(self.next)
    }
}
