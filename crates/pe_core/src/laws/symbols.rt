//! Laws of COFF symbols.

ghost use Rattle.std.specs.Prelude.{◌≡◌, ℕ, ◌≤◌, List, length, map};
ghost use Rattle.std.specs.List.{range_with_len};
ghost use Rattle.pe_core.specs.Gathered.{all_or_refusal};
ghost use Rattle.pe_core.specs.Symbols.{SymbolItem, AreSymbols, item_in, row_of, row_count, symbol_name, symbol_names};

/// The symbols that the iterator returns, from the first entry to the end of the table, are those at the indices of the
/// definition, and there are no more.
#[tactic(auto, using(crate::proofs::SymbolRows::in_rows, crate::proofs::SymbolRows::all_rows))]
pub fn symbols_stand_in_their_rows()
    ensures items { (b : List ℕ) (items : List SymbolItem) → AreSymbols b 0 items →
        items ≡ map (λ k. item_in b (row_of b k)) (range_with_len 0 (length items)) }
    ensures all { (b : List ℕ) (items : List SymbolItem) →
        AreSymbols b 0 items → row_count b ≤ row_of b (length items) }
{}

/// The names of all symbols at once are those of the symbols that the iterator returns, one by one, or the first error.
#[tactic(auto, using(crate::proofs::SymbolNames::names_one_by_one))]
pub fn names_are_those_of_the_symbols()
    ensures { (b table : List ℕ) (items : List SymbolItem) → AreSymbols b 0 items →
        symbol_names b table ≡ all_or_refusal (map (λ item. symbol_name item.symbol table) items) }
{}
