//! Laws over the definitions. Each is the contract of a function that does nothing.

ghost use Rattle.std.specs.Prelude.{◌≡◌, ℕ, List, Ok, length, map, true};
ghost use Rattle.pe_edit.specs.EditRefusals.{section_of};
ghost use Rattle.pe_edit.specs.Found.{as_read, found_leaf, with_key, with_keys};
ghost use Rattle.pe_edit.specs.Reread.{leaves_in};
ghost use Rattle.pe_edit.specs.Sorted.{is_sorted};
ghost use Rattle.pe_edit.specs.Written.{Accepted, Each, Fits, Id, Key, Leaf, Numbers, section, section_length};
ghost use Rattle.pe_resource.specs.ResourceEntries.{with_id};
ghost use Rattle.pe_resource.specs.declared.entry.ResourceEntry.{ResourceEntry};

/// A walk over the leaves of a written section finds exactly the leaves that it was written of, in their order: their
/// types, names, languages, code pages and contents.
#[tactic(auto, using(crate::proofs::SectionRead::section_read))]
pub fn written_leaves_are_read()
    ensures { (rva : ℕ) (xs : List Leaf) → Fits rva xs →
        leaves_in (section rva xs) rva ≡ map (λ x. Ok x) xs }
{}

/// A section has the length that `section_len` returns.
#[tactic(auto, using(crate::proofs::SectionRead::length_of_section))]
pub fn sections_have_their_length()
    ensures { (rva : ℕ) (xs : List Leaf) → length (section rva xs) ≡ section_length xs }
{}

/// What is looked for in a written section by its type, name and language, in each directory by the entry with that key,
/// is the leaf with these keys; nothing is found where there is none. For a search by an id the entry is the first that
/// pe_resource finds.
#[tactic(auto, using(crate::proofs::Sorting::leaves_found, crate::proofs::Lookups::by_id))]
pub fn entries_are_found()
    ensures leaves { (rva : ℕ) (xs : List Leaf) (resource_type name : Key) (language : ℕ) →
        Fits rva xs → is_sorted xs ≡ true →
        found_leaf (section rva xs) rva resource_type name language
        ≡ as_read (with_keys resource_type name language xs) }
    ensures ids { (b : List ℕ) (n : ℕ) (es : List ResourceEntry) → with_key b (Id n) es ≡ with_id n es }
{}

/// Leaves have a section exactly where they are accepted and sorted, and it is the defined one. Accepted leaves fit, as the
/// laws above ask, where their numbers have as many bits as the types of the code.
#[tactic(auto, using(crate::proofs::Tests::passes, crate::proofs::Tests::section_fits, crate::proofs::Tests::section_is_sorted, crate::proofs::Tests::section_is, crate::proofs::Tests::accepted_fit))]
pub fn leaves_are_accepted()
    ensures accepted { (rva : ℕ) (xs : List Leaf) → Accepted rva xs → is_sorted xs ≡ true →
        section_of rva xs ≡ Ok (section rva xs) }
    ensures tested { (rva : ℕ) (xs : List Leaf) (s : List ℕ) → section_of rva xs ≡ Ok s → Accepted rva xs }
    ensures sorted { (rva : ℕ) (xs : List Leaf) (s : List ℕ) → section_of rva xs ≡ Ok s → is_sorted xs ≡ true }
    ensures value { (rva : ℕ) (xs : List Leaf) (s : List ℕ) → section_of rva xs ≡ Ok s → s ≡ section rva xs }
    ensures fits { (rva : ℕ) (xs : List Leaf) → Accepted rva xs → Each Numbers xs → Fits rva xs }
{}
