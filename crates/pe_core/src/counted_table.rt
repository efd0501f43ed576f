//! A table that counts its reads. The lookup of functions in `pe_unwind` reads one, so its contract bounds how many
//! entries it reads.

ghost use Rattle.std.specs.Prelude.{◌≡◌, length};
ghost use Rattle.pe_core.specs.CountedTable.{Counted, u32_of, entry_of, one_more, after_read};

use crate::bytes::{read_u32, require_bytes};
use crate::table_entries::TableEntry;
use std::marker::Model;

/// A table whose bytes are read by `u32_at` and `entry_at` alone, each of which counts. It can't be cloned, so its
/// count includes every read.
#[derive(Drop)]
pub struct CountedTable<'a> {
    bytes: &'a [u8],
    reads: u64,
}

impl<'a> Model for CountedTable<'a> {
    ghost Value = { Counted };

    ghost view = { λ t. record { content = t.bytes.now; count = t.reads } };
}

/// Counts one read, up to `u64::MAX`.
fn count_one(reads: &mut u64)
    ensures { reads.new ≡ one_more reads.old }
{
    *reads = reads.saturating_add(1);
}

impl<'a> CountedTable<'a> {
    /// A table of these bytes, with a count of 0.
    pub fn new(bytes: &'a [u8]) -> Self
        ensures { result ≡ record { content = bytes.entry.now; count = 0 } }
    {
        CountedTable { bytes, reads: 0 }
    }

    /// The length of the table in bytes.
    pub fn len(&self) -> usize
        ensures { result ≡ length self.now.content }
    {
        self.bytes.len()
    }

    /// The number of reads so far. It stays at `u64::MAX`.
    pub fn reads(&self) -> u64
        ensures { result ≡ self.now.count }
    {
        self.reads
    }

    /// The `u32` at `offset` of the table, or `None` if it is truncated. Counts one read in either case.
    pub fn u32_at(&mut self, offset: usize) -> Option<u32>
        ensures value { result ≡ u32_of self.old.content offset }
        ensures counts { self.new ≡ after_read self.old }
    {
        count_one(&mut self.reads);
        match require_bytes(self.bytes, offset, 4) {
            Ok(()) => Some(read_u32(self.bytes, offset)),
            Err(_) => None,
        }
    }

    /// The entry at `offset` of the table, or `None` if it is truncated. Counts one read in either case.
    pub fn entry_at<E: TableEntry>(&mut self, offset: usize) -> Option<E>
        ensures value { result ≡ entry_of E.entry_at E.SIZE self.old.content offset }
        ensures counts { self.new ≡ after_read self.old }
    {
        count_one(&mut self.reads);
        match require_bytes(self.bytes, offset, E::SIZE) {
            Ok(()) => Some(E::at(self.bytes, offset)),
            Err(_) => None,
        }
    }
}
