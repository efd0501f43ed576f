//! Where a walk over the leaves of a resource tree is, as numbers. A caller that can keep no slice, as one in another language,
//! keeps this in place of a `ResourceLeaves`, and takes a leaf at a time.

ghost use Rattle.std.specs.Prelude.{◌≡◌, ◌∷◌, [], IfSome};
ghost use Rattle.std.specs.Option.{MatchOption};
ghost use Rattle.std.specs.Iterator.{YieldsFirstBy};
ghost use Rattle.pe_core.specs.Offsets.{IsWithin, bytes_in};
ghost use Rattle.pe_core.specs.Refusals.{Returns};
ghost use Rattle.pe_resource.specs.LeafPositions.{IsPosition, after_languages, first_in, leaves_after, leaves_at, position_after, position_test};
ghost use Rattle.pe_resource.specs.Leaves.{tree_answer};
ghost use Rattle.pe_resource.specs.ResourceEntries.{entries};

use crate::constants::RESOURCE_ENTRY_SIZE;
use crate::entry::ResourceEntry;
use crate::leaves::{ResourceLeaf, first_of_name, first_of_type, leaf_of, split_range};
use crate::tree_error::ResourceTreeError;
use pe_core::{ByteRange, Result, require_bytes};

/// A position in a walk over the leaves of a resource tree. `ResourceData::leaf_position` returns the first. The ranges are
/// those of entries, and count from the start of the data of the resource directory. The default is the end of any walk.
#[derive(Clone, Copy, Debug, Default, PartialEq)]
pub struct LeafPosition {
    /// The types that are left.
    pub types: ByteRange,
    /// The entry of the type that the names are of.
    pub resource_type: ResourceEntry,
    /// The names that are left of this type.
    pub names: ByteRange,
    /// The entry of the name that the languages are of.
    pub name: ResourceEntry,
    /// The languages that are left of this name.
    pub languages: ByteRange,
}

/// An entry that is not looked at: no name or no language of it is left.
const NO_ENTRY: ResourceEntry = ResourceEntry {
    name_or_id: 0,
    offset_to_data_or_directory: 0,
};

/// The default.
const END: LeafPosition = LeafPosition {
    types: ByteRange::EMPTY,
    resource_type: NO_ENTRY,
    names: ByteRange::EMPTY,
    name: NO_ENTRY,
    languages: ByteRange::EMPTY,
};

/// The first entry of a table in the data, and the range of those after it. `None` if it has no entry.
#[tactic(auto, using(crate::proofs::LeafWalks::no_entry_in_range))]
fn first_in(data: &[u8], table: ByteRange) -> Option<(ResourceEntry, ByteRange)>
    requires { IsWithin data.now table }
    ensures first { MatchOption result (entries (bytes_in data.now table) ≡ [])
        (λ x. entries (bytes_in data.now table) ≡ x.0 ∷ entries (bytes_in data.now x.1)) }
    ensures within { IfSome result (λ x. IsWithin data.now x.1) }
    ensures value { result ≡ first_in data.now table }
{
    if table.length < RESOURCE_ENTRY_SIZE {
        return None;
    }
    Some(split_range(data, table))
}

impl LeafPosition {
    /// `Short` unless the three ranges are in the data.
    fn check(&self, data: &[u8]) -> Result<()>
        ensures { Returns result (position_test data.now self.now) }
    {
        require_bytes(data, self.types.offset, self.types.length)?;
        require_bytes(data, self.names.offset, self.names.length)?;
        require_bytes(data, self.languages.offset, self.languages.length)
    }

    /// Takes the first leaf that is left at a position in the data.
    #[tactic(auto, using(crate::proofs::LeafWalks::no_leaf, crate::proofs::LeafWalks::next_language, crate::proofs::LeafWalks::next_name, crate::proofs::LeafWalks::next_type))]
    fn take(&mut self, data: &[u8]) -> Option<std::result::Result<ResourceLeaf, ResourceTreeError>>
        requires { IsPosition data.now self.old }
        ensures item { YieldsFirstBy tree_answer (leaves_after data.now) self.old result self.new }
        ensures there { IsPosition data.now self.new }
        ensures position { self.new
            ≡ after_languages data.now self.old (first_in data.now self.old.languages) }
    {
        if let Some((language, languages)) = first_in(data, self.languages) {
            self.languages = languages;
            return Some(leaf_of(data, self.resource_type, self.name, language));
        }
        if let Some((name, names)) = first_in(data, self.names) {
            let first = first_of_name(data, self.resource_type, name);
            self.names = names;
            self.name = name;
            self.languages = first.languages;
            return Some(first.item);
        }
        let (resource_type, types) = first_in(data, self.types)?;
        let first = first_of_type(data, resource_type);
        *self = LeafPosition {
            types,
            resource_type,
            names: first.names,
            name: first.name,
            languages: first.languages,
        };
        Some(first.item)
    }

    /// Returns the next leaf, or why an entry has none, and moves to the position after it, as `ResourceLeaves` does. `data` is
    /// that of the resource directory, from its first directory on. `None` at the end.
    ///
    /// Any position is legal. One that is not in the data is one item, `Image` with `Short`, and the end after it.
    pub fn next(
        &mut self,
        data: &[u8],
    ) -> Option<std::result::Result<ResourceLeaf, ResourceTreeError>>
        ensures item { YieldsFirstBy tree_answer (leaves_at data.now) self.old result self.new }
        ensures position { self.new ≡ position_after data.now self.old }
    {
        if let Err(error) = self.check(data) {
            *self = END;
            return Some(Err(ResourceTreeError::Image(error)));
        }
        self.take(data)
    }
}
