//! Lists of records of one kind, as the streams of a minidump have them. A list whose header says how large its entries are may
//! have entries that are larger than their fields, since later versions of Windows add some at the end: the next entry then
//! starts after these. A caller goes over a list by `iter`, or takes one entry by its index; no call allocates.

ghost use Rattle.std.specs.Prelude.{◌≡◌, ℕ, ◌+◌, ◌-◌, ◌*◌, ◌<◌, ◌≤◌, ◌==◌, List, length, IfSome, Some};
ghost use Rattle.std.specs.Iterator.{UpTo, YieldsFirst, item_count};
ghost use Rattle.std.specs.Iterator.SizeHint.{IsWithinCount};
ghost use Rattle.pe_minidump.specs.Tables.{records, records_from, record_of};

use std::alloc::AllocError;
use std::fmt;
use std::marker::PhantomData;

/// A record of a list of a minidump.
pub trait DumpRecord: Sized {
    ghost SIZE: { ℕ };

    ghost record_at: { List ℕ → ℕ → Self };

    /// The size of the fields in bytes.
    const SIZE: usize;

    /// What `{:?}` calls a list of these records.
    const LIST: &'static str;

    /// The record at an offset in the bytes that is known to have one.
    fn at(bytes: &[u8], offset: usize) -> Self
        requires { offset + SIZE ≤ length bytes.now }
        ensures { result ≡ record_at bytes.now offset };

    ghost is_small: { SIZE ≤ 4096 };
}

/// A list of records, each read from the bytes when it is asked for.
#[derive(Drop)]
pub struct Table<'a, E: DumpRecord> {
    bytes: &'a [u8],
    stride: usize,
    count: usize,
    records: PhantomData<E>,
    ghost wide: { E.SIZE ≤ stride },
    ghost inside: { stride * count ≤ length bytes.now },
}

impl<'a, E: DumpRecord> Clone for Table<'a, E> {
    ghost is_clone = { λ x y. y ≡ x };

    fn clone(&self) -> std::result::Result<Self, AllocError> {
        Ok(*self)
    }
}

impl<'a, E: DumpRecord> Copy for Table<'a, E> {}

/// Shows the number of records.
impl<'a, E: DumpRecord> fmt::Debug for Table<'a, E> {
    fn fmt<W: fmt::Write>(&self, f: &mut fmt::Formatter<W>) -> fmt::Result {
        f.debug_struct(E::LIST).field("count", &self.len()).finish()
    }
}

impl<'a, E: DumpRecord> Table<'a, E> {
    /// The list of `count` records in these bytes, the first at their start, each `stride` bytes after the one before it.
    pub(crate) fn new(bytes: &'a [u8], stride: usize, count: usize) -> Self
        requires wide { E.SIZE ≤ stride }
        requires inside { stride * count ≤ length bytes.now }
        ensures { (result.bytes.now ≡ bytes.entry.now) × (result.stride ≡ stride) × (result.count ≡ count) }
    {
        Table {
            bytes,
            stride,
            count,
            records: PhantomData,
        }
    }

    /// The number of records.
    pub fn len(&self) -> usize
        ensures { result ≡ self.now.count }
    {
        self.count
    }

    /// Whether there are none.
    pub fn is_empty(&self) -> bool
        ensures { result ≡ (self.now.count == 0) }
    {
        self.len() == 0
    }

    /// The record with this index. `None` if it is not below `len()`.
    pub fn get(&self, index: usize) -> Option<E>
        ensures { result ≡ record_of E.record_at self.now.bytes.now self.now.stride self.now.count index }
    {
        if index < self.len() {
            Some(self.known(index))
        } else {
            None
        }
    }

    /// The record with an index that the list is known to have.
    pub(crate) fn known(&self, index: usize) -> E
        requires { index < self.now.count }
        ensures { result ≡ E.record_at self.now.bytes.now (self.now.stride * index) }
    {
        E::at(self.bytes, self.stride * index)
    }

    /// The records in the order of the list.
    pub fn iter(&self) -> Records<'a, E>
        ensures { records_from E.record_at result.table.bytes.now result.table.stride result.table.count result.next
            ≡ records E.record_at self.now.bytes.now self.now.stride self.now.count }
    {
        Records {
            table: *self,
            next: 0,
        }
    }
}

/// The records that are left of a list.
#[derive(Drop)]
pub struct Records<'a, E: DumpRecord> {
    table: Table<'a, E>,
    next: usize,
}

/// Shows how many records are left.
impl<'a, E: DumpRecord> fmt::Debug for Records<'a, E> {
    fn fmt<W: fmt::Write>(&self, f: &mut fmt::Formatter<W>) -> fmt::Result {
        f.debug_struct(E::LIST)
            .field("next", &self.next)
            .field("count", &self.table.len())
            .finish()
    }
}

impl<'a, E: DumpRecord> Iterator for Records<'a, E> {
    type Item = E;

    ghost next_gives = { YieldsFirst (λ s. records_from E.record_at s.table.bytes.now s.table.stride s.table.count s.next) };

    ghost remaining = { item_count (λ s. records_from E.record_at s.table.bytes.now s.table.stride s.table.count s.next) };

    #[tactic(auto, using(crate::proofs::Tables::records_more, crate::proofs::Tables::records_none))]
    fn next(&mut self) -> Option<E> {
        if self.table.len() <= self.next {
            return None;
        }
        let record = self.table.known(self.next);
        self.next += 1;
        Some(record)
    }

    fn size_hint(&self) -> (usize, Option<usize>)
        ensures lower { IsWithinCount result.0
            (item_count (λ s. records_from E.record_at s.table.bytes.now s.table.stride s.table.count s.next) self.now) }
        ensures upper { IfSome result.1
            (UpTo (item_count (λ s. records_from E.record_at s.table.bytes.now s.table.stride s.table.count s.next) self.now)) }
        ensures exact { result ≡ (self.now.table.count - self.now.next, Some (self.now.table.count - self.now.next)) }
    {
        let records = self.len();
        (records, Some(records))
    }
}

impl<'a, E: DumpRecord> ExactSizeIterator for Records<'a, E> {
    #[tactic(auto, using(crate::proofs::Tables::count_of_records))]
    fn len(&self) -> usize
        ensures left { result ≡ length (records_from E.record_at self.now.table.bytes.now
            self.now.table.stride self.now.table.count self.now.next) }
        ensures count { result ≡ self.now.table.count - self.now.next }
    {
        self.table.len().saturating_sub(self.next)
    }
}
