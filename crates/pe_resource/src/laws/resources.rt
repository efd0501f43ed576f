//! Laws of entries, versions, strings, walks and resources.

ghost use Rattle.std.specs.Prelude.{◌≡◌, ◌↔◌, ◌<◌, ◌^◌, ℕ, Bool, List, Option, Some, None, Result, Ok, Err, map, IsTrue};
ghost use Rattle.std.specs.Ordering.{nat_cmp};
ghost use Rattle.std.specs.declared.cmp.Ordering.TheVariants.{Equal};
ghost use Rattle.std.specs.Iterator.{Drains};
ghost use Rattle.pe_core.specs.Offsets.{bytes_in, IsWithin};
ghost use Rattle.pe_core.specs.Refusals.{Refusal};
ghost use Rattle.pe_core.specs.declared.byte_range.ByteRange.{ByteRange};
ghost use Rattle.pe_core.specs.declared.data_directories.DataDirectory.{DataDirectory};
ghost use Rattle.pe_core.specs.declared.error.Error.{Error};
ghost use Rattle.pe_core.specs.declared.options.ParseMode.{ParseMode};
ghost use Rattle.pe_core.specs.declared.options.ParseOptions.{ParseOptions};
ghost use Rattle.pe_core.specs.declared.section_table.SectionTable.{SectionTable};
ghost use Rattle.pe_core.specs.declared.table_entries.WholeEntries.{WholeEntries};
ghost use Rattle.pe_resource.specs.declared.entry.ResourceEntry.{ResourceEntry};
ghost use Rattle.pe_resource.specs.declared.leaves.ResourceLeaf.{ResourceLeaf};
ghost use Rattle.pe_resource.specs.declared.leaves.ResourceLeaves.{ResourceLeaves};
ghost use Rattle.pe_resource.specs.declared.string.ResourceString.{ResourceString};
ghost use Rattle.pe_resource.specs.declared.string.ResourceStringIterator.{ResourceStringIterator};
ghost use Rattle.pe_resource.specs.declared.tree_error.ResourceTreeError.{ResourceTreeError};
ghost use Rattle.pe_resource.specs.declared.version.VersionField.{VersionField};
ghost use Rattle.pe_resource.specs.declared.version.VersionName.{VersionName};
ghost use Rattle.pe_resource.specs.Contents.{IsThere, inner};
ghost use Rattle.pe_resource.specs.Leaves.{tree_answer, leaves_left};
ghost use Rattle.pe_resource.specs.ResourceEntries.{entry_of_number, number_of, resource_items_left};
ghost use Rattle.pe_resource.specs.ResourceWalk.{Walks};
ghost use Rattle.pe_resource.specs.Resources.{ResourceView, IsResource, IsResourceRange, IsManifestIn, IsVersionIn};
ghost use Rattle.pe_resource.specs.VersionFields.{version_of_halves, high_half, low_half, whole_number, HasParts, VersionView, fixed_info_of, value_named, version_in, value_range_in};
ghost use Rattle.pe_resource.specs.VersionStrings.{VersionString, Strings, strings, rest_of, item_of};

use crate::directory::ResourceEntryIterator;
use crate::leaves::ResourceLeaves;
use crate::string::ResourceStringIterator;
use crate::version::VersionField;

/// The conversions between entries and numbers are inverse to each other.
#[tactic(auto, using(crate::proofs::Halves::number_back, crate::proofs::Halves::entry_back))]
pub fn entries_are_numbers()
    ensures from { (n : ℕ) → n < 2 ^ 64 → number_of (entry_of_number n) ≡ n }
    ensures value { (e : ResourceEntry) →
        e.offset_to_data_or_directory < 2 ^ 32 → entry_of_number (number_of e) ≡ e }
{}

/// The conversions between versions and their two numbers are inverse to each other.
#[tactic(auto, using(crate::proofs::Halves::version_back, crate::proofs::Halves::high_back, crate::proofs::Halves::low_back))]
pub fn versions_are_halves()
    ensures version { (v : VersionField) →
        v.minor < 2 ^ 16 → v.revision < 2 ^ 16 → version_of_halves (high_half v) (low_half v) ≡ v }
    ensures high { (ms ls : ℕ) → high_half (version_of_halves ms ls) ≡ ms }
    ensures low { (ms ls : ℕ) → low_half (version_of_halves ms ls) ≡ ls }
{}

/// Versions are ordered like their 64-bit numbers, and this order agrees with `==`.
pub fn versions_in_order()
    ensures order { (v w : VersionField) → HasParts v →
        HasParts w → ⟦<VersionField as Ord>⟧.cmp v w ≡ nat_cmp (whole_number v) (whole_number w) }
    ensures partial { (v w : VersionField) →
        HasParts v → HasParts w → ⟦<VersionField as PartialOrd>⟧.partial_cmp v w ≡ Some
        (nat_cmp (whole_number v) (whole_number w)) }
    ensures ties { (v w : VersionField) →
        (⟦<VersionField as Ord>⟧.cmp v w ≡ Equal) ↔ IsTrue (⟦<VersionField as PartialEq>⟧.eq v w) }
    ensures equal { (v w : VersionField) → IsTrue (⟦<VersionField as PartialEq>⟧.eq v w) ↔ (v ≡ w) }
{}

/// An iterator over entries returns the entries of its bytes, and is over after `None`.
pub fn entry_iterators_give_the_entries()
    ensures items { (s : WholeEntries (Result ResourceEntry Error))
        (xs : List (Result ResourceEntry Error)) →
        Drains ⟦<ResourceEntryIterator<'static> as Iterator>⟧.next_gives s xs →
        xs ≡ resource_items_left s }
    ensures none { (s t u : WholeEntries (Result ResourceEntry Error))
        (r : Option (Result ResourceEntry Error)) →
        ⟦<ResourceEntryIterator<'static> as Iterator>⟧.next_gives s None t →
        ⟦<ResourceEntryIterator<'static> as Iterator>⟧.next_gives t r u → r ≡ None }
{}

/// A walk over the leaves of a resource tree returns the leaves that it has left, and is over after `None`.
pub fn leaf_walks_give_the_leaves()
    ensures items { (s : ResourceLeaves) (xs : List (Result ResourceLeaf ResourceTreeError)) →
        Drains ⟦<ResourceLeaves<'static> as Iterator>⟧.next_gives s xs →
        map tree_answer xs ≡ leaves_left s }
    ensures none { (s t u : ResourceLeaves) (r : Option (Result ResourceLeaf ResourceTreeError)) →
        ⟦<ResourceLeaves<'static> as Iterator>⟧.next_gives s None t →
        ⟦<ResourceLeaves<'static> as Iterator>⟧.next_gives t r u → r ≡ None }
{}

/// An iterator over strings returns the strings of its bytes. There is only one list of strings of given bytes, the one
/// that the function `strings` computes. The iterator is over after an error and after `None`.
pub fn strings_have_one_reading()
    ensures items { (s : ResourceStringIterator) (xs : List (Result ResourceString Error)) →
        Drains ⟦<ResourceStringIterator<'static> as Iterator>⟧.next_gives s xs →
        Strings (rest_of s) (map item_of xs) }
    ensures once { (b : List ℕ) (xs : List (Result VersionString Refusal)) →
        Strings b xs ↔ (xs ≡ strings b) }
    ensures refusal { (s t u : ResourceStringIterator)
        (e : Error) (r : Option (Result ResourceString Error)) →
        ⟦<ResourceStringIterator<'static> as Iterator>⟧.next_gives s (Some (Err e)) t →
        ⟦<ResourceStringIterator<'static> as Iterator>⟧.next_gives t r u → r ≡ None }
    ensures none { (s t u : ResourceStringIterator) (r : Option (Result ResourceString Error)) →
        ⟦<ResourceStringIterator<'static> as Iterator>⟧.next_gives s None t →
        ⟦<ResourceStringIterator<'static> as Iterator>⟧.next_gives t r u → r ≡ None }
{}

/// A walk, the resources of a data directory, and the range of a resource have at most one result.
#[tactic(auto, using(crate::proofs::OneAnswer::one_walk, crate::proofs::OneAnswer::one_resource, crate::proofs::OneAnswer::one_range))]
pub fn resources_have_one_answer()
    ensures walk { (b : List ℕ) (p : ResourceEntry → Bool) (e : ResourceEntry)
        (r s : Result ResourceEntry Refusal) → Walks b p e r → Walks b p e s → r ≡ s }
    ensures resource { (o : ParseOptions) (f : List ℕ) (d : DataDirectory)
        (sections : List SectionTable) (alignment : ℕ) (r s : Result ResourceView Refusal) →
        IsResource o f d sections alignment r → IsResource o f d sections alignment s → r ≡ s }
    ensures range { (o : ParseOptions) (f : List ℕ) (d : DataDirectory) (id : ℕ)
        (sections : List SectionTable) (alignment : ℕ) (r s : Result (Option ByteRange) Refusal) →
        IsResourceRange o f d id sections alignment r →
        IsResourceRange o f d id sections alignment s → r ≡ s }
{}

/// A walk, the resources of a data directory, and the range of a resource have a result for all bytes.
#[tactic(auto, using(crate::proofs::SomeResource::some_walk, crate::proofs::SomeResource::some_resource, crate::proofs::SomeResource::some_range))]
pub fn resources_have_an_answer()
    ensures walk { (b : List ℕ) (p : ResourceEntry → Bool) (e : ResourceEntry) →
        (r : Result ResourceEntry Refusal) × Walks b p e r }
    ensures resource { (o : ParseOptions)
        (f : List ℕ) (d : DataDirectory) (sections : List SectionTable) (alignment : ℕ) →
        (r : Result ResourceView Refusal) × IsResource o f d sections alignment r }
    ensures range { (o : ParseOptions)
        (f : List ℕ) (d : DataDirectory) (id : ℕ) (sections : List SectionTable) (alignment : ℕ) →
        (r : Result (Option ByteRange) Refusal) × IsResourceRange o f d id sections alignment r }
{}

/// The manifest is the bytes of its range. The version information is what the bytes of its range are read as; its
/// fixed file information and its values are those that `VsFixedFileInfo::of_strings` and `VersionName::value_range`
/// find. A range inside a range contains the same bytes as the matching range of all bytes.
pub fn ranges_hold_what_is_read()
    ensures manifest { (o : ParseOptions) (f : List ℕ)
        (d : DataDirectory) (sections : List SectionTable) (alignment : ℕ) (x : ResourceView)
        (r : Result (Option ByteRange) Refusal) → IsResource o f d sections alignment (Ok x) →
        IsResourceRange o f d 24 sections alignment r → IsManifestIn f r x.manifest }
    ensures version { (o : ParseOptions) (f : List ℕ)
        (d : DataDirectory) (sections : List SectionTable) (alignment : ℕ) (x : ResourceView)
        (r : Result (Option ByteRange) Refusal) → IsResource o f d sections alignment (Ok x) →
        IsResourceRange o f d 16 sections alignment r → IsVersionIn f r x.version }
    ensures fixed { (b : List ℕ) (v : VersionView) →
        version_in b ≡ Ok v → fixed_info_of b ≡ Ok v.fixed_info }
    ensures value { (b : List ℕ) (v : VersionView) (name : VersionName) →
        version_in b ≡ Ok v → (r : Option ByteRange)
        × (value_range_in name b ≡ Ok r) × IsThere b r (value_named name v.strings) }
    ensures inner { (b : List ℕ) (outer r : ByteRange) →
        IsWithin b outer → IsWithin (bytes_in b outer) r →
        IsWithin b (inner outer r) × (bytes_in b (inner outer r) ≡ bytes_in (bytes_in b outer) r) }
{}

/// If strict mode returns resources, permissive mode returns the same ones.
#[tactic(auto, using(crate::proofs::ResourceModes::strict_resource))]
pub fn strict_resources_are_permissive()
    ensures { (o : ParseOptions) (f : List ℕ)
        (d : DataDirectory) (sections : List SectionTable) (alignment : ℕ) (x : ResourceView) →
        IsResource (record o { parse_mode = ParseMode.Strict }) f d sections alignment (Ok x) →
        IsResource (record o { parse_mode = ParseMode.Permissive }) f d sections alignment (Ok x) }
{}
