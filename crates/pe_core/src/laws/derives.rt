//! What `==`, `clone` and `default` mean: two values are equal if all their fields are, a clone equals its original,
//! and a default has zeros.

ghost use Rattle.std.specs.Prelude.{◌≡◌};
ghost use Rattle.pe_core.specs.declared.byte_range.ByteRange.{ByteRange};
ghost use Rattle.pe_core.specs.declared.options.ParseMode.{ParseMode};
ghost use Rattle.pe_core.specs.declared.options.ParseOptions.{ParseOptions};
ghost use Rattle.pe_core.specs.declared.data_directories.DataDirectory.{DataDirectory};
ghost use Rattle.pe_core.specs.declared.data_directories.DataDirectories.{DataDirectories};
ghost use Rattle.pe_core.specs.Directories.{kept_rows};
ghost use Rattle.pe_core.specs.declared.header.DosHeader.{DosHeader};
ghost use Rattle.pe_core.specs.declared.header.CoffHeader.{CoffHeader};
ghost use Rattle.pe_core.specs.declared.header.TeHeader.{TeHeader};
ghost use Rattle.pe_core.specs.declared.optional_header.StandardFields.{StandardFields};
ghost use Rattle.pe_core.specs.declared.optional_header.WindowsFields.{WindowsFields};
ghost use Rattle.pe_core.specs.declared.section_table.SectionTable.{SectionTable};
ghost use Rattle.pe_core.specs.declared.error.Reason.{Reason};
ghost use Rattle.pe_core.specs.declared.symbol.Symbol.{Symbol};
ghost use Rattle.pe_core.specs.declared.symbol.SymbolTable.{SymbolTable};
ghost use Rattle.pe_core.specs.declared.strtab.Strtab.{Strtab};
ghost use Rattle.pe_core.specs.declared.relocation.RelocationData.{RelocationData};
ghost use Rattle.pe_core.specs.declared.import.ImportDirectoryEntry.{ImportDirectoryEntry};
ghost use Rattle.pe_core.specs.declared.export.ExportDirectoryTable.{ExportDirectoryTable};
ghost use Rattle.pe_core.specs.declared.export_addresses.ExportAddress.{ExportAddress};
ghost use Rattle.pe_core.specs.declared.export_addresses.ExportAddressIterator.{ExportAddressIterator};
ghost use Rattle.pe_core.specs.declared.export_addresses.ExportAddresses.{ExportAddresses};
ghost use Rattle.pe_core.specs.declared.export_addresses.ExportName.{ExportName};
ghost use Rattle.pe_core.specs.declared.header.Header.{Header};
ghost use Rattle.pe_core.specs.declared.optional_header.OptionalHeader.{OptionalHeader};
ghost use Rattle.pe_core.specs.Header.{optional_header_view, header_view};
ghost use Rattle.pe_core.specs.Traits.{IsEquality, ComparesBy, Copies};

use crate::byte_range::ByteRange;
use crate::data_directories::{DataDirectories, DataDirectory};
use crate::error::Reason;
use crate::export::ExportDirectoryTable;
use crate::export_addresses::{ExportAddress, ExportAddressIterator, ExportAddresses, ExportName};
use crate::header::{CoffHeader, DosHeader, Header, TeHeader};
use crate::import::ImportDirectoryEntry;
use crate::optional_header::{OptionalHeader, StandardFields, WindowsFields};
use crate::options::{ParseMode, ParseOptions};
use crate::relocation::RelocationData;
use crate::section_table::SectionTable;
use crate::strtab::Strtab;
use crate::symbol::{Symbol, SymbolIterator, SymbolTable};

/// Values of plain numbers are equal exactly if they are the same.
pub fn equal_records_are_the_same()
    ensures byte_range { IsEquality ⟦<ByteRange as PartialEq>⟧.eq }
    ensures parse_mode { IsEquality ⟦<ParseMode as PartialEq>⟧.eq }
    ensures data_directory { IsEquality ⟦<DataDirectory as PartialEq>⟧.eq }
    ensures dos_header { IsEquality ⟦<DosHeader as PartialEq>⟧.eq }
    ensures coff_header { IsEquality ⟦<CoffHeader as PartialEq>⟧.eq }
    ensures te_header { IsEquality ⟦<TeHeader as PartialEq>⟧.eq }
    ensures standard_fields { IsEquality ⟦<StandardFields as PartialEq>⟧.eq }
    ensures windows_fields { IsEquality ⟦<WindowsFields as PartialEq>⟧.eq }
    ensures symbol { IsEquality ⟦<Symbol as PartialEq>⟧.eq }
    ensures import_directory_entry { IsEquality ⟦<ImportDirectoryEntry as PartialEq>⟧.eq }
    ensures export_directory_table { IsEquality ⟦<ExportDirectoryTable as PartialEq>⟧.eq }
    ensures export_address { IsEquality ⟦<ExportAddress as PartialEq>⟧.eq }
{}

/// Directories are equal exactly if the entries that they keep are.
#[tactic(auto, using(crate::proofs::Equality::same_rows, crate::proofs::Equality::rows_equal))]
pub fn equal_directories_keep_the_same_rows()
    ensures { ComparesBy kept_rows ⟦<DataDirectories as PartialEq>⟧.eq }
{}

/// Reasons are equal exactly if their variants and their numbers are.
pub fn reasons_are_equal_if_they_are_the_same()
    ensures { IsEquality ⟦<Reason as PartialEq>⟧.eq }
{}

/// Options are equal exactly if all their fields are.
pub fn equal_options_are_the_same()
    ensures { IsEquality ⟦<ParseOptions as PartialEq>⟧.eq }
{
    equal_records_are_the_same()
}

/// Section headers are equal exactly if all their fields are.
#[tactic(auto, using(crate::proofs::FieldEquality::sections_equal))]
pub fn equal_sections_are_the_same()
    ensures { IsEquality ⟦<SectionTable as PartialEq>⟧.eq }
{}

/// Optional headers are equal exactly if their fields and the directories that they keep are.
pub fn equal_optional_headers_look_the_same()
    ensures { ComparesBy optional_header_view ⟦<OptionalHeader as PartialEq>⟧.eq }
{
    equal_records_are_the_same();
    equal_directories_keep_the_same_rows()
}

/// Headers are equal exactly if their fields are, the stub by its bytes.
pub fn equal_headers_look_the_same()
    ensures { ComparesBy header_view ⟦<Header<'static> as PartialEq>⟧.eq }
{
    equal_records_are_the_same();
    equal_optional_headers_look_the_same()
}

/// Ranges of the input are equal exactly if their bytes are.
pub fn equal_ranges_have_equal_bytes()
    ensures symbol_table { ComparesBy (λ t. t.bytes.now) ⟦<SymbolTable<'static> as PartialEq>⟧.eq }
    ensures strtab { ComparesBy (λ t. t.bytes.now) ⟦<Strtab<'static> as PartialEq>⟧.eq }
    ensures relocation_data { ComparesBy
        (λ d. d.bytes.now) ⟦<RelocationData<'static> as PartialEq>⟧.eq }
{}

/// A default has zeros.
pub fn defaults_are_zeros()
    ensures { (x : ByteRange) →
        ⟦<ByteRange as Default>⟧.is_default x → x ≡ record { offset = 0; length = 0 } }
{}

/// A clone equals its original.
pub fn clones_of_records_are_the_same()
    ensures byte_range { Copies ⟦<ByteRange as Clone>⟧.is_clone }
    ensures parse_mode { Copies ⟦<ParseMode as Clone>⟧.is_clone }
    ensures parse_options { Copies ⟦<ParseOptions as Clone>⟧.is_clone }
    ensures data_directory { Copies ⟦<DataDirectory as Clone>⟧.is_clone }
    ensures dos_header { Copies ⟦<DosHeader as Clone>⟧.is_clone }
    ensures coff_header { Copies ⟦<CoffHeader as Clone>⟧.is_clone }
    ensures te_header { Copies ⟦<TeHeader as Clone>⟧.is_clone }
    ensures standard_fields { Copies ⟦<StandardFields as Clone>⟧.is_clone }
    ensures windows_fields { Copies ⟦<WindowsFields as Clone>⟧.is_clone }
    ensures data_directories { (x y : DataDirectories) →
        ⟦<DataDirectories as Clone>⟧.is_clone x y → kept_rows y ≡ kept_rows x }
    ensures optional_header { (x y : OptionalHeader) →
        ⟦<OptionalHeader as Clone>⟧.is_clone x y → optional_header_view y ≡ optional_header_view x }
    ensures header { (x y : Header) →
        ⟦<Header<'static> as Clone>⟧.is_clone x y → header_view y ≡ header_view x }
    ensures symbol_iterator { Copies ⟦<SymbolIterator<'static> as Clone>⟧.is_clone }
    ensures section_table { Copies ⟦<SectionTable as Clone>⟧.is_clone }
    ensures symbol { Copies ⟦<Symbol as Clone>⟧.is_clone }
    ensures symbol_table { Copies ⟦<SymbolTable<'static> as Clone>⟧.is_clone }
    ensures strtab { Copies ⟦<Strtab<'static> as Clone>⟧.is_clone }
    ensures relocation_data { Copies ⟦<RelocationData<'static> as Clone>⟧.is_clone }
    ensures import_directory_entry { Copies ⟦<ImportDirectoryEntry as Clone>⟧.is_clone }
    ensures export_directory_table { Copies ⟦<ExportDirectoryTable as Clone>⟧.is_clone }
    ensures export_address { Copies ⟦<ExportAddress as Clone>⟧.is_clone }
    ensures export_name { Copies ⟦<ExportName<'static> as Clone>⟧.is_clone }
    ensures export_addresses { Copies ⟦<ExportAddresses<'static> as Clone>⟧.is_clone }
    ensures export_address_iterator { Copies
        ⟦<ExportAddressIterator<'static> as Clone>⟧.is_clone }
    ensures reason { Copies ⟦<Reason as Clone>⟧.is_clone }
{}
