//! Tables of entries of one fixed size, one after the other: function tables, epilog scopes, scope tables, the entries of
//! resource directories. Two iterators read them: `TableEntries` returns a truncated last entry as an error, and
//! `WholeEntries` leaves it out.

ghost use Rattle.std.specs.Prelude.{◌≡◌, ℕ, ◌+◌, ◌*◌, ◌/◌, ◌<◌, ◌≤◌, List, length, map, Bool, IfSome, Some, Ok};
ghost use Rattle.std.specs.List.{find, range_with_len};
ghost use Rattle.std.proofs.Common.{ap};
ghost use Rattle.std.specs.Iterator.{UpTo, YieldsFirst, YieldsFirstBy, item_count};
ghost use Rattle.std.specs.Iterator.SizeHint.{IsWithinCount};
ghost use Rattle.pe_core.specs.Refusals.{answer_of};
ghost use Rattle.pe_core.specs.Rows.{ReadsAfter, whole_entries};
ghost use Rattle.pe_core.specs.EntriesLeft.{bytes_left, items_left, whole_bytes_left, whole_left};

use crate::bytes::split_entry;
use crate::error::Result;
use std::alloc::AllocError;
use std::fmt;
use std::marker::PhantomData;

/// An entry of a table, all entries of which have the same size.
pub trait TableEntry: Sized {
    ghost SIZE: { ℕ };

    ghost entry_at: { List ℕ → ℕ → Self };

    /// The size of an entry in bytes.
    const SIZE: usize;

    /// What `{:?}` calls the iterator over these entries.
    const ITERATOR: &'static str;

    /// The entry at an offset in the bytes that is known to have one.
    fn at(bytes: &[u8], offset: usize) -> Self
        requires { offset + SIZE ≤ length bytes.now }
        ensures { result ≡ entry_at bytes.now offset };

    ghost has_bytes: { 0 < SIZE };

    ghost reads_after: { ReadsAfter entry_at SIZE };
}

/// The same entry as a result, for iterators whose items are results and never errors.
impl<E: TableEntry> TableEntry for Result<E> {
    ghost SIZE = { E.SIZE };

    ghost entry_at = { λ b p. Ok (E.entry_at b p) };

    const SIZE: usize = E::SIZE;

    const ITERATOR: &'static str = E::ITERATOR;

    fn at(bytes: &[u8], offset: usize) -> Result<E> {
        Ok(E::at(bytes, offset))
    }

    ghost has_bytes = { E.has_bytes };

    ghost reads_after = { λ b p q e. ap (λ x. Ok x) (E.reads_after b p q e) };
}

/// An entry that is found by its id.
pub trait EntryWithId: TableEntry + Drop {
    ghost has_id: { ℕ → Self → Bool };

    /// Whether the entry has this id.
    fn has_id(&self, id: u16) -> bool
        ensures { result ≡ has_id id self.now };
}

/// The entries that are left of a table. A truncated last entry is one item, `Short`.
#[derive(Drop)]
pub struct TableEntries<'a, E> {
    bytes: &'a [u8],
    entries: PhantomData<E>,
}

/// Shows the bytes that are left.
impl<'a, E: TableEntry> fmt::Debug for TableEntries<'a, E> {
    fn fmt<W: fmt::Write>(&self, f: &mut fmt::Formatter<W>) -> fmt::Result {
        f.debug_struct(E::ITERATOR)
            .field("bytes", &self.bytes)
            .finish()
    }
}

impl<'a, E: TableEntry> TableEntries<'a, E> {
    /// The entries of these bytes, the first at their start.
    pub fn new(bytes: &'a [u8]) -> Self
        ensures { bytes_left result ≡ bytes.entry.now }
    {
        TableEntries {
            bytes,
            entries: PhantomData,
        }
    }
}

impl<'a, E: TableEntry> Iterator for TableEntries<'a, E> {
    type Item = Result<E>;

    ghost next_gives = { YieldsFirstBy answer_of (items_left E.entry_at E.SIZE) };

    ghost remaining = { item_count (items_left E.entry_at E.SIZE) };

    #[tactic(auto, using(crate::proofs::EntryItems::entry_items_more, crate::proofs::EntryItems::entry_items_cut, crate::proofs::EntryItems::entry_items_none))]
    fn next(&mut self) -> Option<Result<E>> {
        match split_entry(&mut self.bytes, E::SIZE)? {
            Ok(bytes) => Some(Ok(E::at(bytes, 0))),
            Err(error) => Some(Err(error)),
        }
    }

    fn size_hint(&self) -> (usize, Option<usize>)
        ensures lower { IsWithinCount result.0
            (item_count (items_left E.entry_at E.SIZE) self.now) }
        ensures upper { IfSome result.1
            (UpTo (item_count (items_left E.entry_at E.SIZE) self.now)) }
        ensures exact { result ≡ (
          length (items_left E.entry_at E.SIZE self.now),
          Some (length (items_left E.entry_at E.SIZE self.now)),
        ) }
    {
        let entries = self.len();
        (entries, Some(entries))
    }
}

impl<'a, E: TableEntry> ExactSizeIterator for TableEntries<'a, E> {
    #[tactic(auto, using(crate::proofs::EntryItems::count_of_entry_items))]
    fn len(&self) -> usize
        ensures { result ≡ length (items_left E.entry_at E.SIZE self.now) }
    {
        self.bytes.len().div_ceil(E::SIZE)
    }
}

/// The whole entries that are left of a table. A truncated last entry is left out.
pub struct WholeEntries<'a, E> {
    bytes: &'a [u8],
    entries: PhantomData<E>,
}

impl<'a, E> Clone for WholeEntries<'a, E> {
    ghost is_clone = { λ x y. y ≡ x };

    fn clone(&self) -> std::result::Result<Self, AllocError> {
        Ok(*self)
    }
}

impl<'a, E> Copy for WholeEntries<'a, E> {}

/// Shows the bytes that are left.
impl<'a, E: TableEntry> fmt::Debug for WholeEntries<'a, E> {
    fn fmt<W: fmt::Write>(&self, f: &mut fmt::Formatter<W>) -> fmt::Result {
        f.debug_struct(E::ITERATOR)
            .field("bytes", &self.bytes)
            .finish()
    }
}

impl<'a, E: TableEntry> WholeEntries<'a, E> {
    /// The whole entries of these bytes, the first at their start.
    pub fn new(table: &'a [u8]) -> Self
        ensures { whole_bytes_left result ≡ table.entry.now }
    {
        WholeEntries {
            bytes: table,
            entries: PhantomData,
        }
    }

    /// The bytes that are left, those of a truncated last entry too.
    pub fn table(self) -> &'a [u8]
        ensures { result.now ≡ whole_bytes_left self.entry }
    {
        let WholeEntries { bytes: left, .. } = self;
        left
    }
}

/// The first of the whole entries of `bytes` with this id.
fn first_with_id<E: EntryWithId>(bytes: &[u8], id: u16) -> Option<E>
    ensures { result ≡ find (E.has_id id) (map
        (λ i. E.entry_at bytes.now (E.SIZE * i)) (range_with_len 0 (length bytes.now / E.SIZE))) }
{
    (0..bytes.len() / E::SIZE)
        .map(
            |i|
                requires { E.SIZE * i + E.SIZE ≤ length bytes.now }
                ensures { result ≡ E.entry_at bytes.entry.now (E.SIZE * i) }
            { E::at(bytes, E::SIZE * i) },
        )
        .find(|entry| entry.has_id(id))
}

impl<'a, E: EntryWithId> WholeEntries<'a, Result<E>> {
    /// The first of the whole entries that are left with this id, or `None`.
    #[tactic(auto, using(crate::proofs::EntryItems::each_as_map))]
    pub fn first_with_id(&self, id: u16) -> Option<E>
        ensures { result ≡ find (E.has_id id)
            (whole_entries E.entry_at E.SIZE (whole_bytes_left self.now)) }
    {
        first_with_id(self.bytes, id)
    }

    /// The same as a result. Never returns an error.
    pub fn find_by_id(&self, id: u16) -> Result<Option<E>>
        ensures { answer_of result ≡ Ok (find (E.has_id id)
            (whole_entries E.entry_at E.SIZE (whole_bytes_left self.now))) }
    {
        Ok(self.first_with_id(id))
    }
}

impl<'a, E: TableEntry> Iterator for WholeEntries<'a, E> {
    type Item = E;

    ghost next_gives = { YieldsFirst (whole_left E.entry_at E.SIZE) };

    ghost remaining = { item_count (whole_left E.entry_at E.SIZE) };

    #[tactic(auto, using(crate::proofs::EntryItems::whole_entries_more, crate::proofs::EntryItems::whole_entries_none))]
    fn next(&mut self) -> Option<E> {
        let bytes = split_entry(&mut self.bytes, E::SIZE)?.ok()?;
        Some(E::at(bytes, 0))
    }

    fn size_hint(&self) -> (usize, Option<usize>)
        ensures lower { IsWithinCount result.0
            (item_count (whole_left E.entry_at E.SIZE) self.now) }
        ensures upper { IfSome result.1
            (UpTo (item_count (whole_left E.entry_at E.SIZE) self.now)) }
        ensures exact { result ≡ (
          length (whole_left E.entry_at E.SIZE self.now),
          Some (length (whole_left E.entry_at E.SIZE self.now)),
        ) }
    {
        let whole = self.len();
        (whole, Some(whole))
    }
}

impl<'a, E: TableEntry> ExactSizeIterator for WholeEntries<'a, E> {
    #[tactic(auto, using(crate::proofs::EntryItems::count_of_whole_entries))]
    fn len(&self) -> usize
        ensures { result ≡ length (whole_left E.entry_at E.SIZE self.now) }
    {
        self.bytes.len() / E::SIZE
    }
}
