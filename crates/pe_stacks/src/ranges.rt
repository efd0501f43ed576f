//! Lookup of an address in ranges that stand in no order and may overlap, as the modules and the memory of a minidump do. The first
//! range in the order of the list counts.

ghost use Rattle.std.specs.Prelude.{◌≡◌, ◌<◌, length, IfErr, IfOk, IfSome, slice_index_or};
ghost use Rattle.std.specs.List.{find};
ghost use Rattle.std.specs.Option.{option_map};
ghost use Rattle.pe_core.specs.RangeIndexes.{Indexes};
ghost use Rattle.pe_lookup.specs.AddressRanges.{has_address};

use crate::range_index::Stated;
use pe_core::{RangeEntry, index_of, number_at};
use pe_lookup::AddressRange;
use std::alloc::{AllocError, Allocator};

/// Ranges of addresses with an index of them.
#[derive(Drop)]
pub struct IndexedRanges<'r, R: AddressRange, A: Allocator + Drop> {
    ranges: &'r [R],
    entries: Vec<RangeEntry, A>,
    ghost index: { Indexes R.start_of R.size_of 0 ranges.now entries.items },
}

impl<'r, R: AddressRange, A: Allocator + Copy + Drop> IndexedRanges<'r, R, A> {
    /// These ranges, with an index of them that is made in n log n steps and has two entries of 16 bytes for each, and while it is
    /// made as many more. Error: memory runs out, which it does not where there are no ranges.
    pub fn new(alloc: A, ranges: &'r [R]) -> Result<IndexedRanges<'r, R, A>, AllocError>
        ensures made { IfOk result (λ v. v.ranges.now ≡ ranges.entry.now) }
        ensures refused { IfErr result (λ e. 0 < length ranges.entry.now) }
    {
        let entries = index_of(alloc, &Stated, ranges)?;
        Ok(IndexedRanges { ranges, entries })
    }

    /// The ranges, in the order of the list.
    pub fn ranges(&self) -> &'r [R]
        ensures { result.now ≡ self.now.ranges.now }
    {
        self.ranges
    }

    /// The index of the first range that has an address, by binary search.
    fn position(&self, address: u64) -> Option<usize>
        ensures within { IfSome result (λ k. k < length self.now.ranges.now) }
        ensures found { (d : R) → option_map (λ k. slice_index_or self.now.ranges.now k d) result
            ≡ find (has_address R.start_of R.size_of address) self.now.ranges.now }
    {
        let number = number_at(&self.entries, address);
        if number == 0 {
            return None;
        }
        Some(number as usize - 1)
    }

    /// The first range that has an address, by binary search.
    pub fn find(&self, address: u64) -> Option<&'r R>
        ensures { option_map (λ r. r.now) result
            ≡ find (has_address R.start_of R.size_of address) self.now.ranges.now }
    {
        match self.position(address) {
            Some(index) => Some(&self.ranges[index]),
            None => None,
        }
    }
}
