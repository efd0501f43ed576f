//! Lookup of an RVA by an index of the sections of an image, which a caller makes where an image has many of them: entries at the RVAs
//! where another section begins to map RVAs, or none. One section is looked at for an RVA, where all of them are tested in turn
//! without it. Every list of entries is legal: what it names is tested as a section is without it, so that one that is wrong gives
//! wrong offsets and no other harm.
//! https://learn.microsoft.com/windows/win32/debug/pe-format#section-table-section-headers

ghost use Rattle.std.specs.Prelude.{◌≡◌, ◌+◌, ◌<◌, ◌≤◌, ◌^◌, length};
ghost use Rattle.pe_lookup.specs.SectionIndexes.{start_by, started, number_found, numbered, sections_by};

use crate::address_ranges::{self, AddressRange};
use pe_core::{RangeEntry, SectionTable};

/// The RVAs from the start of an entry on. How far they reach, the next entry says.
impl AddressRange for RangeEntry {
    ghost start_of = { λ e. e.start };

    ghost size_of = { λ e. 0 };

    fn start(&self) -> u64 {
        self.start
    }

    fn size(&self) -> u64 {
        0
    }
}

/// Whether there are so many entries, and the last of them starts at or before an RVA.
pub fn start_by(entries: &[RangeEntry], rva: u64, count: usize) -> bool
    requires { 0 < count }
    ensures { result ≡ start_by entries.now rva count }
{
    count <= entries.len() && entries[count - 1].start <= rva
}

/// How many entries start at or before an RVA, where they are sorted.
fn started(entries: &[RangeEntry], rva: u64) -> usize
    ensures count { result ≡ started entries.now rva 64 0 }
    ensures most { result ≤ length entries.now }
{
    address_ranges::started(entries, rva)
}

/// The number in the last of the entries that start at or before an RVA.
pub fn number_found(entries: &[RangeEntry], rva: u64) -> u64
    ensures { result ≡ number_found entries.now rva }
{
    let count = started(entries, rva);
    if count == 0 {
        return 0;
    }
    entries[count - 1].number
}

/// The section with an index plus 1, if there is one.
pub fn numbered(sections: &[SectionTable], number: u64) -> &[SectionTable]
    ensures { result.now ≡ numbered sections.entry.now number }
{
    if 0 < number && number <= sections.len() as u64 {
        let index = number as usize - 1;
        &sections[index..index + 1]
    } else {
        &[]
    }
}

/// The sections that may map an RVA: all of them without an index, else the one that the index names. A virtual address less the
/// image base may be an RVA of more than 32 bits.
#[tactic(auto, unfolding(crate::specs::SectionIndexes::sections_by))]
pub fn sections_by<'a>(
    sections: &'a [SectionTable],
    index: &[RangeEntry],
    rva: u64,
) -> &'a [SectionTable]
    ensures { result.now ≡ sections_by sections.entry.now index.now rva }
{
    if index.is_empty() {
        return sections;
    }
    numbered(sections, number_found(index, rva))
}
