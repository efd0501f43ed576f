//! The module of an RVA: an index of the ranges of section contributions, in rooms that the caller has. It is made in n log n
//! steps, and an RVA is looked up by binary search. Contributions stand in no order; where two have an RVA, the first counts.

ghost use Rattle.std.specs.Prelude.{◌≡◌, ◌+◌, ◌<◌, ◌≤◌, ◌^◌, length};
ghost use Rattle.pe_core.specs.RangeIndexes.{Rises, number_at};
ghost use Rattle.pe_pdb.specs.Contributions.{module_at_rva};
ghost use Rattle.pe_pdb.specs.Lookups.{digits};
ghost use Rattle.pe_pdb.specs.ModuleIndexes.{IndexesModules};

use crate::contribution::ModuleRange;
use crate::counted_entries::CountedEntries;
use crate::module_index::ModuleIndex;
use pe_core::{AddressesOf, RangeEntry, put_index};

/// Each range lies where it says.
struct Stated;

impl AddressesOf<ModuleRange> for Stated {
    ghost start_of = { λ f r. r.start };

    ghost size_of = { λ f r. r.size };

    ghost limit = { λ f. 2 ^ 65 };

    fn start(&self, range: &ModuleRange) -> u64 {
        u64::from(range.start)
    }

    fn size(&self, range: &ModuleRange) -> u64 {
        // It is read so that the proof knows its bound.
        let _start = range.start;
        u64::from(range.size)
    }
}

/// The number of the range that has an address. It reads at most as many entries as their number has binary digits, and two; `entries`
/// counts these reads.
#[inline(always)]
pub fn search_ranges(entries: &mut CountedEntries<'_, RangeEntry>, address: u64) -> u64
    ensures number { Rises entries.old.entries.now → result ≡ number_at entries.old.entries.now address }
    ensures cost { entries.new.reads ≤ entries.old.reads + digits (length entries.old.entries.now) + 2 }
{
    let after = entries.count_up_to(address);
    if after == 0 {
        return 0;
    }
    entries.get(after - 1).number
}

impl<'r> ModuleIndex<'r> {
    /// The index of these ranges, as `put_ranges` writes them. The room has to have four entries for each; what is in it after
    /// the call is left open. `Err` of the number that it has to have where it has fewer.
    pub fn new(
        ranges: &'r [ModuleRange],
        room: &'r mut [RangeEntry],
    ) -> std::result::Result<ModuleIndex<'r>, usize>
        requires { length ranges.now < 2 ^ 60 }
        ensures { IndexesModules ranges.entry.now (length room.old) result }
    {
        let count = put_index(&Stated, ranges, room)?;
        Ok(ModuleIndex {
            ranges,
            entries: &room[..count],
        })
    }

    /// The index of the module that has an RVA: that of the first range with it. `None` where no range has it.
    pub fn module_at(&self, rva: u32) -> Option<u32>
        ensures { result ≡ module_at_rva self.now.ranges.now rva }
    {
        let number = search_ranges(&mut CountedEntries::new(self.entries), u64::from(rva));
        if number == 0 {
            return None;
        }
        Some(self.ranges[number as usize - 1].module_index)
    }
}
