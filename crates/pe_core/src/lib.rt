//! Headers, sections, symbols, exports, imports and base relocations of Windows executables, and the map from RVAs to
//! file offsets. Layouts are those of Microsoft's
//! [PE format](https://learn.microsoft.com/windows/win32/debug/pe-format).
//!
//! A caller parses a `Header` and its sections, and passes a data directory with the sections to the reader of its
//! table. Every call is proved to return what its definition in `specs/` says, for every byte string.
#![tactic(auto)]

mod byte_range;
mod bytes;
mod counted_table;
mod data_directories;
mod error;
mod export;
mod export_addresses;
mod first_zero;
mod header;
mod hex_digits;
mod import;
mod import_list;
pub mod laws;
mod library_names;
mod many_lists;
mod many_texts;
mod mapped_bytes;
mod optional_header;
mod options;
mod range_index;
mod relocation;
mod rva_map;
mod section_index;
mod section_map;
mod section_table;
mod section_window;
mod strtab;
mod symbol;
mod symbol_names;
mod table_entries;
mod text;

pub use byte_range::ByteRange;
pub use bytes::{
    data_at, read_u8, read_u16, read_u32, read_u64, require_bytes, require_room, set_slice, set_u8,
    set_u16, set_u32, set_u64, set_zeros, slice_at, split_entry, u8_at, u16_at, u32_at, u64_at,
};
pub use counted_table::CountedTable;
pub use data_directories::{DataDirectories, DataDirectory, MOST_DIRECTORIES};
pub use error::{Error, Reason, Result};
pub use export::{Export, ExportData, ExportDirectoryTable};
pub use export_addresses::{
    ExportAddress, ExportAddressIterator, ExportAddresses, ExportName, lies_in,
};
pub use header::{
    COFF_MACHINE_ARM64, COFF_MACHINE_X86_64, CoffHeader, DOS_MAGIC, DosHeader, Header,
    IMAGE_FILE_DLL, PE_MAGIC, SIZE_OF_DOS_HEADER, SIZE_OF_TE_HEADER, TE_MAGIC, TeHeader,
};
pub use hex_digits::hex_digit;
pub use import::{
    ImportData, ImportDirectoryEntry, SyntheticImportDirectoryEntry, lookup_number, lookup_size,
    lookups_at,
};
pub use import_list::Import;
pub use many_texts::texts_at;
pub use mapped_bytes::MappedBytes;
pub use optional_header::{MAGIC_32, MAGIC_64, OptionalHeader, StandardFields, WindowsFields};
pub use options::{ParseMode, ParseOptions};
pub use range_index::{AddressesOf, RangeEntry, index_of, number_at, put_index};
pub use relocation::RelocationData;
pub use rva_map::RvaMap;
pub use section_index::{SectionIndex, SectionMap, mapped_offset};
pub use section_map::{find_offset, put_section_index, rounded_up};
pub use section_table::SectionTable;
pub use strtab::Strtab;
pub use symbol::{SIZE_OF_SYMBOL, Symbol, SymbolIterator, SymbolTable};
pub use table_entries::{EntryWithId, TableEntries, TableEntry, WholeEntries};
pub use text::text_at;
