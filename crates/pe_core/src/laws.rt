//! Laws over the definitions. Each is the contract of a function that does nothing.

pub mod constants;
pub mod derives;
pub mod symbols;

ghost use Rattle.std.specs.Prelude.{◌≡◌, ℕ, ◌+◌, ◌/◌, ◌<◌, ◌≤◌, ◌^◌, List, Ok, Option, Some, IsSome, length, map};
ghost use Rattle.std.specs.List.{filter_map};
ghost use Rattle.pe_core.specs.declared.data_directories.DataDirectory.{DataDirectory};
ghost use Rattle.pe_core.specs.declared.export_addresses.ExportAddress.{ExportAddress};
ghost use Rattle.pe_core.specs.declared.options.ParseMode.{ParseMode};
ghost use Rattle.pe_core.specs.Bytes.{AreBytes, range, le, bytes_of, put};
ghost use Rattle.pe_core.specs.Chains.{after, NeverStops, FollowsKey, HasKeysBelow, KeyDecides};
ghost use Rattle.pe_core.specs.ExportAddresses.{NameView, address_at, address_with, addresses_of, name_at};
ghost use Rattle.pe_core.specs.Exports.{ExportDataView, ExportView, export_at};
ghost use Rattle.pe_core.specs.Imports.{ImportRecordView, first_imports, import_data_at, import_entries, imports, name_read_of};
ghost use Rattle.pe_core.specs.Header.{OptionalHeaderView, HeaderView, optional_header_at, header_at};
ghost use Rattle.pe_core.specs.Records.{dos_header, coff_header, standard_fields_32, standard_fields_64, windows_fields_32, windows_fields_64, data_directory, section_table, te_header};
ghost use Rattle.pe_core.specs.Spelling.{spell_dos, spell_coff, spell_standard_fields_32, spell_standard_fields_64, spell_windows_fields_32, spell_windows_fields_64, spell_directory, spell_section, spell_te, spell_optional};

/// A number that is written at an offset, where it fits, is read there again.
#[tactic(auto, using(crate::proofs::PutNumbers::numbers))]
pub fn numbers_that_are_put_are_read_again()
    ensures { (b : List ℕ) (p n number : ℕ) →
        p + n ≤ length b → number < 256 ^ n → le (put b p (bytes_of n number)) p n ≡ number }
{}

/// A record that is read at an offset spells the bytes at that offset, whatever they are.
#[tactic(auto, using(crate::proofs::SpelledRecords::spelled_dos, crate::proofs::SpelledRecords::spelled_coff, crate::proofs::SpelledRecords::spelled_standard_fields_32, crate::proofs::SpelledRecords::spelled_standard_fields_64, crate::proofs::SpelledRecords::spelled_windows_fields_32, crate::proofs::SpelledRecords::spelled_windows_fields_64, crate::proofs::SpelledRecords::spelled_directory, crate::proofs::SpelledRecords::spelled_section, crate::proofs::SpelledRecords::spelled_te))]
pub fn records_spell_their_bytes()
    ensures dos { (b : List ℕ) (p : ℕ) →
        AreBytes b → p + 64 ≤ length b → spell_dos (dos_header b p) ≡ range b p 64 }
    ensures coff { (b : List ℕ) (p : ℕ) →
        AreBytes b → p + 20 ≤ length b → spell_coff (coff_header b p) ≡ range b p 20 }
    ensures standard_fields_32 { (b : List ℕ) (p : ℕ) → AreBytes b →
        p + 28 ≤ length b → spell_standard_fields_32 (standard_fields_32 b p) ≡ range b p 28 }
    ensures standard_fields_64 { (b : List ℕ) (p : ℕ) → AreBytes b →
        p + 24 ≤ length b → spell_standard_fields_64 (standard_fields_64 b p) ≡ range b p 24 }
    ensures windows_fields_32 { (b : List ℕ) (p : ℕ) → AreBytes b →
        p + 68 ≤ length b → spell_windows_fields_32 (windows_fields_32 b p) ≡ range b p 68 }
    ensures windows_fields_64 { (b : List ℕ) (p : ℕ) → AreBytes b →
        p + 88 ≤ length b → spell_windows_fields_64 (windows_fields_64 b p) ≡ range b p 88 }
    ensures directory { (b : List ℕ) (p : ℕ) →
        AreBytes b → p + 8 ≤ length b → spell_directory (data_directory b p) ≡ range b p 8 }
    ensures section { (b : List ℕ) (p : ℕ) →
        AreBytes b → p + 40 ≤ length b → spell_section (section_table b p) ≡ range b p 40 }
    ensures te { (b : List ℕ) (p : ℕ) →
        AreBytes b → p + 40 ≤ length b → spell_te (te_header b p) ≡ range b p 40 }
{}

/// An optional header that is accepted at an offset spells the bytes at that offset.
#[tactic(auto, using(crate::proofs::SpelledOptional::spelled_optional))]
pub fn optional_headers_spell_their_bytes()
    ensures { (b : List ℕ) (p : ℕ) (o : OptionalHeaderView) → AreBytes b →
        optional_header_at b p ≡ Ok o → range b p (length (spell_optional o)) ≡ spell_optional o }
{}

/// Each export that has a name is the one with the index to which its entry of the name table leads, and each name that
/// leads to an export is that of an export. So the exports by name, which `Export::parse_with_opts` lists, are exports by
/// index.
#[tactic(auto, using(crate::proofs::AddressLists::by_name, crate::proofs::AddressLists::to_name))]
pub fn exports_by_name_are_those_by_index()
    ensures named { (offset : ℕ → Option ℕ) (b : List ℕ) (directory : DataDirectory)
        (d : ExportDataView) (i : ℕ) (e : ExportView) → i < length d.names / 4 →
        export_at offset b d i ≡ Some e → (k : ℕ) ×
        (name_at offset b (addresses_of directory d) i ≡ Some (record { name = e.name; index = k }))
        × (address_at (addresses_of directory d) k
        ≡ Some (address_with (addresses_of directory d) k e.rva)) }
    ensures leading { (offset : ℕ → Option ℕ) (b : List ℕ) (directory : DataDirectory)
        (d : ExportDataView) (i : ℕ) (n : NameView) (x : ExportAddress) →
        i < length d.names / 4 → name_at offset b (addresses_of directory d) i ≡ Some n →
        address_at (addresses_of directory d) n.index ≡ Some x → export_at offset b d i
        ≡ Some (record { name = n.name; rva = x.rva; offset = offset x.rva }) }
{}

/// Headers that strict mode accepts are those that permissive mode returns.
#[tactic(auto, using(crate::proofs::Modes::strict_header))]
pub fn strict_headers_are_permissive()
    ensures { (b : List ℕ) (h : HeaderView) →
        header_at b ParseMode.Strict ≡ Ok h → header_at b ParseMode.Permissive ≡ Ok h }
{}

/// Steps never stop if there are more of them than keys, where each state with a next one has a key below a number and
/// the states after equal keys are equal. Where equal keys have the same step, steps never stop if a key comes again.
pub fn steps_that_never_stop<X>()
    ensures more { (step : X → Option X) (key : X → ℕ) (n : ℕ) (x : X) → FollowsKey step key →
        HasKeysBelow step key n → IsSome (after step (n + 1) x) → NeverStops step x }
    ensures again { (step : X → Option X) (key : X → ℕ) (x y z : X) (i d : ℕ) →
        KeyDecides step key → after step i x ≡ Some y →
        after step (d + 1) y ≡ Some z → key y ≡ key z → NeverStops step x }
{}

/// The names of the records of a parsed import directory are those that are read again at the records' RVAs. So
/// `ImportData::libraries_with_map` returns the names that `libraries` returns.
#[tactic(auto, using(crate::proofs::NamesRead::names_read_again))]
pub fn names_of_records_are_read_again()
    ensures { (offset : ℕ → Option ℕ) (w : ℕ) (b : List ℕ) (rva : ℕ) (records : List ImportRecordView) →
        import_data_at offset w b rva ≡ Ok records →
        filter_map (name_read_of offset b) records ≡ map (λ r. r.name) records }
{}

/// The first imports are all imports if there are no more.
#[tactic(auto, using(crate::proofs::FirstEntries::all_are_first))]
pub fn imports_are_first_imports()
    ensures { (offset : ℕ → Option ℕ) (w : ℕ) (b : List ℕ) (records : List ImportRecordView) (most : ℕ) →
        length (import_entries w records) ≤ most →
        first_imports offset w b records most ≡ imports offset w b records }
{}
