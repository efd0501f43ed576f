//! Entries of an index that count how often one is read, so that the contracts of lookups bound it. Where a lookup makes them of a slice
//! and drops them, nothing is counted.

ghost use Rattle.std.specs.Prelude.{◌≡◌, ℕ, ◌+◌, ◌≤◌, ◌<◌, length, slice_index_or};
ghost use Rattle.pe_core.specs.CountedTable.{one_more};
ghost use Rattle.pe_pdb.specs.Lookups.{IsCut, digits};
ghost use Rattle.pe_pdb.specs.SymbolEntries.{rva_in};

use crate::line_entries::LineEntry;
use crate::symbol_entries::UNIT;
use pe_core::RangeEntry;

/// An entry that starts at an address.
pub(crate) trait StartsAt: Copy {
    ghost start_of: { Self → ℕ };

    /// Where it starts.
    fn start(&self) -> u64
        ensures { result ≡ start_of self.now };
}

impl StartsAt for u64 {
    ghost start_of = { λ a. rva_in a };

    fn start(&self) -> u64 {
        *self / UNIT
    }
}

impl StartsAt for LineEntry {
    ghost start_of = { λ e. e.line.rva };

    fn start(&self) -> u64 {
        u64::from(self.line.rva)
    }
}

impl StartsAt for RangeEntry {
    ghost start_of = { λ e. e.start };

    fn start(&self) -> u64 {
        self.start
    }
}

/// Entries that are read by `get` alone, which counts. They can't be cloned, so the count includes every read.
#[derive(Drop)]
pub struct CountedEntries<'r, T> {
    entries: &'r [T],
    reads: u64,
}

impl<'r, T> CountedEntries<'r, T> {
    /// These entries, with a count of 0.
    pub fn new(entries: &'r [T]) -> CountedEntries<'r, T>
        ensures entries { result.entries.now ≡ entries.entry.now }
        ensures reads { result.reads ≡ 0 }
    {
        CountedEntries { entries, reads: 0 }
    }

    /// How often an entry was read so far. It stays at `u64::MAX`.
    pub fn reads(&self) -> u64
        ensures { result ≡ self.now.reads }
    {
        self.reads
    }
}

impl<'r, T: StartsAt> CountedEntries<'r, T> {
    /// The entry with an index. Counts one read.
    pub(crate) fn get(&mut self, index: usize) -> T
        requires { index < length self.old.entries.now }
        ensures value { (d : T) → result ≡ slice_index_or self.old.entries.now index d }
        ensures kept { self.new.entries ≡ self.old.entries }
        ensures counts { self.new.reads ≡ one_more self.old.reads }
    {
        self.reads = self.reads.saturating_add(1);
        self.entries[index]
    }

    /// How many entries start at or before an address, where they ascend. It reads at most as many as their number has binary digits, and
    /// one.
    // Inlined with its callers: in one that drops the entries no read is counted. What is read decides no branch but the last.
    #[inline(always)]
    pub(crate) fn count_up_to(&mut self, address: u64) -> usize
        ensures cut { IsCut T.start_of self.old.entries.now address result result }
        ensures kept { self.new.entries ≡ self.old.entries }
        ensures cost { self.new.reads ≤ self.old.reads + digits (length self.old.entries.now) + 1 }
    {
        let mut low = 0;
        let mut size = self.entries.len();
        if size == 0 {
            return 0;
        }
        while size > 1 {
            let half = size / 2;
            if self.get(low + half).start() <= address {
                low += half;
                size -= half;
            } else {
                size -= half;
            }
        }
        if self.get(low).start() <= address {
            low + 1
        } else {
            low
        }
    }
}
