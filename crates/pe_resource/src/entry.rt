//! Entries of resource directories, and the walk from one level of the tree to the next. An entry has a name or an id,
//! and the offset of a directory one level down or of a data entry. Layout:
//! <https://learn.microsoft.com/windows/win32/debug/pe-format#resource-directory-entries>. Offsets count from the first
//! directory.

ghost use Rattle.std.specs.Prelude.{◌≡◌, ◌≢◌, ◌+◌, ◌*◌, ◌<◌, ◌↔◌, Bool, Ok, Err, IfOk, IsSome};
ghost use Rattle.std.specs.Fn.{FnReturnsAt};
ghost use Rattle.std.proofs.Common.{arith};
ghost use Rattle.pe_core.specs.Refusals.{Returns, Memory, ResourceCycle, answer_of};
ghost use Rattle.pe_resource.specs.declared.entry.ResourceEntry.{ResourceEntry};
ghost use Rattle.pe_resource.specs.ResourceEntries.{entry_of_number, number_of, entry_at, has_name, name_offset, id_of, is_directory, directory_offset, data_offset, has_id};
ghost use Rattle.pe_resource.specs.EntriesAfter.{entries_after};
ghost use Rattle.pe_resource.specs.ResourceWalk.{first_at, step, Walks, IsEndlessWalk, IsSteady, Found};

use crate::constants::{
    IMAGE_RESOURCE_DATA_IS_DIRECTORY, IMAGE_RESOURCE_MASK, IMAGE_RESOURCE_NAME_IS_STRING,
    RESOURCE_ENTRY_SIZE,
};
use crate::directory::{ImageResourceDirectory, SIZE_OF_DIRECTORY};
use pe_core::{EntryWithId, Error, Reason, Result, TableEntry, read_u32, require_bytes};
use std::alloc::Allocator;

/// An entry of a resource directory, 8 bytes: a name or an id, and the offset of what it leads to.
#[repr(C)]
#[derive(Clone, Copy, Debug, Default, PartialEq)]
pub struct ResourceEntry {
    /// If bit 31 is set, the offset of a name in the low 31 bits, from the first directory; else an id in the low 16
    /// bits.
    pub name_or_id: u32,
    /// If bit 31 is set, the offset of a directory in the low 31 bits; else the offset of a data entry. Both count from
    /// the first directory.
    pub offset_to_data_or_directory: u32,
}

impl From<u64> for ResourceEntry {
    ghost from_gives = { λ n e. e ≡ entry_of_number n };

    /// The entry with the high half of the number as `name_or_id` and the low half as `offset_to_data_or_directory`.
    fn from(value: u64) -> ResourceEntry {
        ResourceEntry {
            name_or_id: (value >> 32) as u32,
            offset_to_data_or_directory: (value & 0xFFFF_FFFF) as u32,
        }
    }
}

impl TableEntry for ResourceEntry {
    ghost SIZE = { 8 };

    ghost entry_at = { entry_at };

    const SIZE: usize = RESOURCE_ENTRY_SIZE;

    const ITERATOR: &'static str = "ResourceEntryIterator";

    fn at(bytes: &[u8], offset: usize) -> ResourceEntry {
        ResourceEntry {
            name_or_id: read_u32(bytes, offset),
            offset_to_data_or_directory: read_u32(bytes, offset + 4),
        }
    }

    ghost has_bytes = { omega arith };

    ghost reads_after = { entries_after };
}

impl EntryWithId for ResourceEntry {
    ghost has_id = { has_id };

    fn has_id(&self, id: u16) -> bool {
        match self.id() {
            Some(own) => own == id,
            None => false,
        }
    }
}

impl ResourceEntry {
    /// The entry as a number: `name_or_id` is its high half, `offset_to_data_or_directory` its low half.
    pub fn value(&self) -> u64
        ensures { result ≡ number_of self.now }
    {
        (u64::from(self.name_or_id) << 32) + u64::from(self.offset_to_data_or_directory)
    }

    /// Whether the entry has a name: bit 31 of `name_or_id`.
    pub fn name_is_string(&self) -> bool
        ensures { result ≡ has_name self.now }
    {
        IMAGE_RESOURCE_NAME_IS_STRING <= self.name_or_id
    }

    /// The low 31 bits of `name_or_id`: the offset of the name from the first directory, if the entry has a name.
    pub fn name_offset(&self) -> u32
        ensures { result ≡ name_offset self.now }
    {
        self.name_or_id & IMAGE_RESOURCE_MASK
    }

    /// The id: the low 16 bits of `name_or_id`. `None` if the entry has a name.
    pub fn id(&self) -> Option<u16>
        ensures { result ≡ id_of self.now }
    {
        if self.name_is_string() {
            None
        } else {
            Some((self.name_or_id % 0x1_0000) as u16)
        }
    }

    /// Whether the entry leads to a directory: bit 31 of `offset_to_data_or_directory`.
    pub fn data_is_directory(&self) -> bool
        ensures { result ≡ is_directory self.now }
    {
        IMAGE_RESOURCE_DATA_IS_DIRECTORY <= self.offset_to_data_or_directory
    }

    /// The low 31 bits of `offset_to_data_or_directory`: the offset of the directory from the first directory, if the
    /// entry leads to a directory.
    pub fn offset_to_directory(&self) -> u32
        ensures { result ≡ directory_offset self.now }
    {
        self.offset_to_data_or_directory & IMAGE_RESOURCE_MASK
    }

    /// The offset of the data entry from the first directory. `None` if the entry leads to a directory.
    pub fn offset_to_data(&self) -> Option<u32>
        ensures { result ≡ data_offset self.now }
    {
        if self.data_is_directory() {
            None
        } else {
            Some(self.offset_to_data_or_directory)
        }
    }

    /// Returns the first entry of the directory that this entry leads to, whatever bit 31 says. `bytes` starts with the
    /// first directory. `None` if the directory has no entries. `Short` if the directory or its entries are truncated.
    pub fn next_depth(&self, bytes: &[u8]) -> Result<Option<ResourceEntry>>
        ensures { Returns result (step bytes.now self.now) }
    {
        first_at(bytes, self.offset_to_directory() as usize)
    }

    /// Walks from this entry to the first entry of its directory, and on from there by `next_depth`. Returns the first
    /// entry that fails the predicate, or the entry that leads to a directory without entries. The predicate is not
    /// called for this entry. `bytes` starts with the first directory.
    ///
    /// Errors: `Short` if a directory or its entries are truncated; `ResourceCycle` if the walk never ends. These hold
    /// for a predicate that returns the same for equal entries. The call always returns an entry or an error, never
    /// `None`. It asks for no memory: `_alloc` is not used.
    pub fn recursive_next_depth<A: Allocator + Drop, P: Fn(&ResourceEntry) -> bool>(
        &self,
        _alloc: A,
        bytes: &[u8],
        predicate: P,
    ) -> Result<Option<ResourceEntry>>
        requires { P.IsAlwaysCallable predicate }
        ensures walks { (p : ResourceEntry → Bool) →
            IsSteady P.Fn predicate p → Found (answer_of result) (Walks bytes.now p self.now) }
        ensures cycle { (p : ResourceEntry → Bool) → IsSteady P.Fn predicate p →
            ((answer_of result ≡ Err ResourceCycle) ↔ IsEndlessWalk bytes.now p self.now) }
        ensures entry { IfOk result (λ e. IsSome e) }
        ensures no_memory { answer_of result ≢ Err Memory }
    {
        Ok(Some(walk(*self, bytes, predicate)?))
    }
}

/// The first entry of the directory at `offset`. `None` if it has no entries, `Short` if it or its entries are
/// truncated.
#[tactic(auto, unfolding(crate::specs::ResourceWalk::first_at))]
fn first_at(bytes: &[u8], offset: usize) -> Result<Option<ResourceEntry>>
    ensures { Returns result (first_at bytes.now offset) }
{
    require_bytes(bytes, offset, SIZE_OF_DIRECTORY)?;
    let directory = ImageResourceDirectory::at(bytes, offset);
    require_bytes(bytes, offset + SIZE_OF_DIRECTORY, directory.entries_size())?;
    if directory.count() == 0 {
        return Ok(None);
    }
    Ok(Some(ResourceEntry::at(bytes, offset + SIZE_OF_DIRECTORY)))
}

/// Calls the predicate.
fn is_passed<P: Fn(&ResourceEntry) -> bool>(predicate: &P, entry: &ResourceEntry) -> bool
    requires { P.IsAlwaysCallable predicate.now }
    ensures { FnReturnsAt P.Fn predicate.now entry.now result }
{
    predicate(entry)
}

/// Walks from an entry: `ResourceEntry::recursive_next_depth`.
///
/// `saved` is the directory offset of the entry after 1, 2, 4, 8 and so on steps. A walk that comes to that offset
/// again never ends. Nor does a walk with more steps than there are bytes: two of its directories have the same offset.
pub(crate) fn walk<P: Fn(&ResourceEntry) -> bool>(
    start: ResourceEntry,
    bytes: &[u8],
    predicate: P,
) -> Result<ResourceEntry>
    requires { P.IsAlwaysCallable predicate }
    ensures walks { (p : ResourceEntry → Bool) →
        IsSteady P.Fn predicate p → Walks bytes.now p start (answer_of result) }
    ensures no_memory { answer_of result ≢ Err Memory }
{
    let mut current = start;
    let mut saved = start.offset_to_directory();
    let mut power: usize = 1;
    for steps in 0..bytes.len() + 1 {
        let Some(entry) = current.next_depth(bytes)? else {
            return Ok(current);
        };
        if !is_passed(&predicate, &entry) {
            return Ok(entry);
        }
        let offset = entry.offset_to_directory();
        if offset == saved {
            return Err(Error::Malformed(Reason::ResourceCycle(offset)));
        }
        current = entry;
        if steps + 1 == power {
            saved = offset;
            power = power.saturating_mul(2);
        }
    }
    Err(Error::Malformed(Reason::ResourceCycle(saved)))
}
