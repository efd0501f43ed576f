//! Tables of address ranges, as of the modules of a process, of pieces of memory or of the sections of an image, and lookup of an
//! address in them.

ghost use Rattle.std.specs.Prelude.{◌≡◌, ◌<◌, ◌≤◌, ℕ, IsTrue, length};
ghost use Rattle.std.specs.List.{find};
ghost use Rattle.std.specs.Option.{option_map};
ghost use Rattle.pe_lookup.specs.AddressRanges.{AreAscending, IsCountUpTo, Overlaps, has_address, start_by, started};

use crate::bits::{bits_of, power_of_two};
use std::cell::Cell;

/// What lies at a range of addresses.
pub trait AddressRange {
    ghost start_of: { Self → ℕ };

    ghost size_of: { Self → ℕ };

    /// The first address.
    fn start(&self) -> u64
        ensures { result ≡ start_of self.now };

    /// How many addresses there are. Those past 2^64 - 1 are none.
    fn size(&self) -> u64
        ensures { result ≡ size_of self.now };
}

/// The index of the first range that starts before the end of the one before it. `None` if the ranges are in ascending
/// order.
pub fn first_overlap<R: AddressRange>(ranges: &[R]) -> Option<usize>
    ensures { Overlaps R.start_of R.size_of ranges.now result }
{
    // Of the one before.
    let mut start = 0;
    let mut size = 0;
    for (index, range) in ranges.iter().enumerate() {
        let next = range.start();
        if next < start || next - start < size {
            return Some(index);
        }
        start = next;
        size = range.size();
    }
    None
}

/// How many ranges start at or before an address, by binary search.
fn count_up_to<R: AddressRange>(ranges: &[R], address: u64) -> usize
    requires { AreAscending R.start_of R.size_of ranges.now }
    ensures { IsCountUpTo R.start_of address ranges.now result }
{
    started(ranges, address)
}

/// The range that has an address, if the last of so many does, which start at or before it.
#[tactic(auto, using(crate::proofs::Lookups::last_starts, crate::proofs::Lookups::none_starts, crate::proofs::Lookups::range_found, crate::proofs::Lookups::range_missed))]
fn last_of<R: AddressRange>(ranges: &[R], count: usize, address: u64) -> Option<&R>
    requires ascending { AreAscending R.start_of R.size_of ranges.now }
    requires count { IsCountUpTo R.start_of address ranges.now count }
    ensures { option_map (λ r. r.now) result
        ≡ find (has_address R.start_of R.size_of address) ranges.now }
{
    if count == 0 {
        return None;
    }
    let range = &ranges[count - 1];
    if address - range.start() < range.size() {
        Some(range)
    } else {
        None
    }
}

/// The range that has an address, by binary search.
pub fn range_with<R: AddressRange>(ranges: &[R], address: u64) -> Option<&R>
    requires { AreAscending R.start_of R.size_of ranges.now }
    ensures { option_map (λ r. r.now) result
        ≡ find (has_address R.start_of R.size_of address) ranges.now }
{
    last_of(ranges, count_up_to(ranges, address), address)
}

/// The same where addresses of one range follow one another: that with an index is asked first, which becomes the index of the last
/// range that was found.
#[tactic(auto, using(crate::proofs::Lookups::near_found))]
pub fn range_near<'a, R: AddressRange>(
    ranges: &'a [R],
    near: &Cell<usize>,
    address: u64,
) -> Option<&'a R>
    requires { AreAscending R.start_of R.size_of ranges.now }
    ensures { option_map (λ r. r.now) result
        ≡ find (has_address R.start_of R.size_of address) ranges.entry.now }
{
    let index = near.get();
    if index < ranges.len() && has_address(&ranges[index], address) {
        return Some(&ranges[index]);
    }
    let count = count_up_to(ranges, address);
    near.set(count.saturating_sub(1));
    last_of(ranges, count, address)
}

/// Whether there are so many ranges, and the last of them starts at or before an address.
fn start_by<R: AddressRange>(ranges: &[R], address: u64, count: usize) -> bool
    requires { 0 < count }
    ensures is { (d : R) → result ≡ start_by R.start_of d ranges.now address count }
    ensures most { IsTrue result → count ≤ length ranges.now }
{
    count <= ranges.len() && ranges[count - 1].start() <= address
}

/// How many ranges start at or before an address, where they are sorted: by halving, bit by bit. Of ranges in no order it is some
/// number of them, and 0 or one whose last range does.
pub fn started<R: AddressRange>(ranges: &[R], address: u64) -> usize
    ensures count { (d : R) →
        result ≡ started R.start_of d ranges.now address (length ranges.now) 0 }
    ensures most { result ≤ length ranges.now }
{
    let mut count = 0;
    let mut bits = bits_of(ranges.len());
    while bits > 0 {
        bits -= 1;
        let more = count + power_of_two(bits);
        if start_by(ranges, address, more) {
            count = more;
        }
    }
    count
}

/// Whether a range has an address.
pub fn has_address<R: AddressRange>(range: &R, address: u64) -> bool
    ensures { result ≡ has_address R.start_of R.size_of address range.now }
{
    range.start() <= address && address - range.start() < range.size()
}

/// The first range that has an address. They are tested in turn.
fn first_in_turn<R: AddressRange>(ranges: &[R], address: u64) -> Option<&R>
    ensures { option_map (λ r. r.now) result
        ≡ find (has_address R.start_of R.size_of address) ranges.now }
{
    ranges.iter().find(|range| has_address(*range, address))
}

/// The first range that has an address: by binary search in ranges in ascending order, in any others in turn.
pub fn first_with<R: AddressRange>(ranges: &[R], is_ascending: bool, address: u64) -> Option<&R>
    requires { IsTrue is_ascending → AreAscending R.start_of R.size_of ranges.now }
    ensures { option_map (λ r. r.now) result
        ≡ find (has_address R.start_of R.size_of address) ranges.now }
{
    if is_ascending {
        range_with(ranges, address)
    } else {
        first_in_turn(ranges, address)
    }
}
