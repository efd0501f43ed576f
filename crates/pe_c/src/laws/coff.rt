//! Laws of COFF objects: a walk over symbols returns those of its table, and the range of a name is the name.

ghost use Rattle.std.specs.Prelude.{◌≡◌, ℕ, List, Ok, Err, Some, [], ◌∷◌, map};
ghost use Rattle.pe_core.specs.Refusals.{Refusal};
ghost use Rattle.pe_core.specs.Symbols.{AreSymbols, SymbolItem, symbol_in, symbol_name};
ghost use Rattle.calls_headers.specs.Coff.{StepsSymbols, symbol_name_at, symbol_reported};
ghost use Rattle.calls_base.specs.Ranges.{IsRange, bytes_at};
ghost use Rattle.calls_base.specs.Runs.{ReturnsItems};
ghost use Rattle.calls_headers.specs.declared.coff.SymbolWalk.{SymbolWalk};
ghost use Rattle.calls_base.specs.declared.ranges.Range.{Range};
ghost use Rattle.pe_core.specs.Options.{te_options};
ghost use Rattle.pe_core.specs.declared.data_directories.DataDirectory.{DataDirectory};
ghost use Rattle.pe_core.specs.declared.section_table.SectionTable.{SectionTable};
ghost use Rattle.pe_records.specs.DebugDirectory.{directory_range};

/// A walk over symbols returns, one a step, those of its table from its entry on, and then nothing: auxiliary records are
/// skipped. A table that is not inside the bytes is one error alone.
#[tactic(auto, using(calls_headers::proofs::SymbolRuns::symbols_in_turn, calls_headers::proofs::SymbolRuns::outside))]
pub fn walks_give_the_symbols()
    ensures symbols { (b : List ℕ) (walk : SymbolWalk) (table : List ℕ)
        (items : List SymbolItem) → bytes_at b walk.table ≡ Ok table →
        AreSymbols table walk.next items →
        ReturnsItems (StepsSymbols b) walk (map (symbol_reported walk.table table) items) }
    ensures outside { (b : List ℕ) (walk : SymbolWalk) (refusal : Refusal) →
        bytes_at b walk.table ≡ Err refusal →
        ReturnsItems (StepsSymbols b) walk (Err refusal ∷ []) }
{}

/// The range that `pe_c_symbol_name` returns lies in the bytes, and is the name of the symbol in that entry.
#[tactic(auto, using(calls_headers::proofs::SymbolTexts::names_are_parts))]
pub fn ranges_of_symbol_names()
    ensures { (b : List ℕ) (table strings : Range) (index : ℕ) (t s : List ℕ) (r : Range) →
        bytes_at b table ≡ Ok t → bytes_at b strings ≡ Ok s →
        symbol_name_at b table strings index ≡ Ok (Some r) →
        (name : List ℕ) × (symbol_name (symbol_in t index) s ≡ Ok name) × IsRange b r name }
{}

/// The debug directory of a TE image stands at the same range whatever sections and file alignment its readers are passed: so
/// the calls, which are passed none, read the range that `TE::parse` of pe_image reads.
#[tactic(auto, using(calls_headers::proofs::TeRanges::without_sections))]
pub fn te_images_are_read_without_sections()
    ensures { (b : List ℕ) (d : DataDirectory) (sections : List SectionTable) (alignment : ℕ) →
        directory_range te_options b d sections alignment ≡ directory_range te_options b d [] 0 }
{}
