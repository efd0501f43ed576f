//! The section that has an RVA in memory, found by halving over the section table, so that one section is asked, of the 65,535 that a
//! hostile image may have. In a valid image the sections are in ascending order and adjacent, so no other section has the RVA. In any
//! other table the search ends at one section too, or at none.
//! https://learn.microsoft.com/windows/win32/debug/pe-format#section-table-section-headers

ghost use Rattle.std.specs.Prelude.{◌≡◌};
ghost use Rattle.pe_lookup.specs.SectionSearch.{memory_size, section_start, section_started};

use crate::address_ranges::{AddressRange, started};
use crate::section_index::numbered;
use pe_core::SectionTable;

/// The RVAs that a section has in memory, which may be more than the file has bytes for.
impl AddressRange for SectionTable {
    ghost start_of = { section_start };

    ghost size_of = { memory_size };

    fn start(&self) -> u64 {
        u64::from(self.virtual_address)
    }

    fn size(&self) -> u64 {
        let size = if self.virtual_size == 0 {
            self.size_of_raw_data
        } else {
            self.virtual_size
        };
        u64::from(size)
    }
}

/// The last section that starts at or before an RVA, if there is one, where the sections are in ascending order. It need not have
/// the RVA.
pub fn section_started(sections: &[SectionTable], rva: u32) -> &[SectionTable]
    ensures { result.now ≡ section_started sections.entry.now rva }
{
    numbered(sections, started(sections, u64::from(rva)) as u64)
}
