//! The section map: the file offset of an RVA, by the first section that covers it
//! ([section headers](https://learn.microsoft.com/windows/win32/debug/pe-format#section-table-section-headers)). Raw
//! pointers are rounded down to 512 bytes and sizes up to 4096, whatever alignments the image states. A caller maps one
//! RVA by `find_offset`, and many by a `SectionMap`.

ghost use Rattle.std.specs.Prelude.{◌≡◌, ◌+◌, ◌-◌, ◌<◌, ◌≤◌, ◌^◌, IfErr, IfOk, length};
ghost use Rattle.std.specs.Option.{option_map};
ghost use Rattle.std.specs.List.{find, position};
ghost use Rattle.pe_core.specs.RangeIndexes.{EndBelow, Indexes, PutsIndex};
ghost use Rattle.pe_core.specs.SectionMap.{rounded_up, raw_start, reach, covers, may_cover, offset_by, section_map};

use crate::options::ParseOptions;
use crate::range_index::{AddressesOf, RangeEntry, index_of, put_index};
use crate::section_table::SectionTable;
use std::alloc::{AllocError, Allocator};

/// Raw pointers are rounded down to a multiple of this, whatever file alignment an image states.
const SECTOR: usize = 512;

/// Raw and virtual sizes are rounded up to a multiple of this, whatever section alignment an image states.
const PAGE: u32 = 4096;

/// `n` rounded up to a multiple of `unit`.
pub fn rounded_up(n: usize, unit: usize) -> usize
    requires unit { 0 < unit }
    requires room { n + unit ≤ 2 ^ 64 }
    ensures up { result ≡ rounded_up n unit }
    ensures least { n ≤ result }
    ensures most { result < n + unit }
{
    (n + (unit - 1)) / unit * unit
}

/// The file offset of the section's data as mapped: its raw pointer rounded down to a sector.
pub(crate) fn raw_start(section: &SectionTable) -> usize
    ensures offset { result ≡ raw_start section.now }
    ensures small { result < 2 ^ 32 }
{
    section.pointer_to_raw_data as usize / SECTOR * SECTOR
}

/// The number of RVAs that the section covers.
#[tactic(auto, unfolding(crate::specs::SectionMap::reach))]
fn reach(section: &SectionTable, alignment: u32) -> usize
    requires { 0 < alignment }
    ensures count { result ≡ reach alignment section.now }
    ensures small { result < 2 ^ 33 }
{
    let raw_size = rounded_up(section.size_of_raw_data as usize, PAGE as usize);
    let raw_end = rounded_up(section.raw_end(), alignment as usize);
    let raw = (raw_end - raw_start(section)).min(raw_size);
    if section.virtual_size == 0 {
        raw
    } else {
        raw.min(rounded_up(section.virtual_size as usize, PAGE as usize))
    }
}

/// The sections as ranges of RVAs.
#[derive(Drop)]
struct Covered {
    alignment: u32,
    ghost some: { 0 < alignment },
}

impl AddressesOf<SectionTable> for Covered {
    ghost start_of = { λ f s. s.virtual_address };

    ghost size_of = { λ f s. reach f.alignment s };

    ghost limit = { λ f. 2 ^ 34 };

    fn start(&self, section: &SectionTable) -> u64 {
        u64::from(section.virtual_address)
    }

    fn size(&self, section: &SectionTable) -> u64 {
        // It is read so that the proof knows its bound.
        let _start = section.virtual_address;
        reach(section, self.alignment) as u64
    }
}

/// An index of the sections as ranges of RVAs: an RVA belongs to the first section that covers it.
pub(crate) fn entries_of<A: Allocator + Copy>(
    alloc: A,
    sections: &[SectionTable],
    alignment: u32,
) -> Result<Vec<RangeEntry, A>, AllocError>
    requires { 0 < alignment }
    ensures { IfOk result (λ v.
        Indexes (λ s. s.virtual_address) (reach alignment) 0 sections.now v.items) }
{
    index_of(alloc, &Covered { alignment }, sections)
}

/// Makes an index of the sections as ranges of RVAs at the start of a room: an RVA belongs to the first section that covers it. Returns
/// how many entries it has, two for each section. The room has to have four for each, and what follows these is unchanged. `Err` of how
/// many it has to have where it has fewer; then nothing changes.
pub fn put_section_index(
    sections: &[SectionTable],
    alignment: u32,
    room: &mut [RangeEntry],
) -> Result<usize, usize>
    requires { 0 < alignment }
    ensures puts { PutsIndex (λ s. s.virtual_address) (reach alignment) sections.now room.old room.new result }
    ensures ends { IfOk result (λ n. EndBelow (λ s. s.virtual_address) (reach alignment) (2 ^ 34) sections.now) }
    ensures fits { IfOk result (λ n. n < 2 ^ 64) }
{
    put_index(&Covered { alignment }, sections, room)
}

/// A cheap test that every section passes that covers an RVA with these low 32 bits: the page of the RVA starts,
/// counted from the section's start, before its raw size ends.
fn may_cover(section: &SectionTable, low: u32) -> bool
    ensures { result ≡ may_cover low section.now }
{
    let raw_size = section.size_of_raw_data;
    low.wrapping_sub(section.virtual_address) / PAGE * PAGE < raw_size
}

/// The file offset of this RVA by the section: `None` if the section does not cover it. Each test is that of `reach`,
/// with the RVA rounded down in place of the size rounded up.
#[tactic(auto, using(crate::proofs::Reaches::starts_after, crate::proofs::Reaches::past_raw_size, crate::proofs::Reaches::past_virtual_size, crate::proofs::Reaches::past_raw_end, crate::proofs::Reaches::inside))]
pub(crate) fn offset_by(section: &SectionTable, alignment: u32, address: usize) -> Option<usize>
    requires { 0 < alignment }
    ensures { result ≡ offset_by alignment address section.now }
{
    let start = section.virtual_address as usize;
    if address < start {
        return None;
    }
    let within = address - start;
    let page = within / PAGE as usize * PAGE as usize;
    let virtual_size = section.virtual_size as usize;
    if section.size_of_raw_data as usize <= page || virtual_size != 0 && virtual_size <= page {
        return None;
    }
    let offset = within + raw_start(section);
    if section.raw_end() <= offset / alignment as usize * alignment as usize {
        return None;
    }
    Some(offset)
}

/// The index of the first section that passes the cheap test. An index, not the section, so that what follows the scan
/// reads the section again and the scan keeps none of its fields: it rejects a section in eight instructions.
fn first_candidate(sections: &[SectionTable], low: u32) -> Option<usize>
    ensures { result ≡ position (may_cover low) sections.now }
{
    sections.iter().position(|section| may_cover(section, low))
}

/// Whether the section covers this RVA.
fn covers(section: &SectionTable, alignment: u32, address: usize) -> bool
    requires { 0 < alignment }
    ensures { result ≡ covers alignment address section.now }
{
    offset_by(section, alignment, address).is_some()
}

/// The file offset of an RVA, by all tests of each section. Out of line, as it is rare.
#[cold]
#[inline(never)]
#[tactic(auto, using(crate::proofs::Map::found_passes))]
fn offset_by_all_tests(address: usize, sections: &[SectionTable], alignment: u32) -> Option<usize>
    requires { 0 < alignment }
    ensures { result ≡ option_map (λ s. address - s.virtual_address + raw_start s)
        (find (covers alignment address) sections.now) }
{
    let section = sections
        .iter()
        .find(|section| covers(section, alignment, address))?;
    offset_by(section, alignment, address)
}

/// The file offset of an RVA, by the first section that covers it: mostly the first that passes the cheap test.
#[tactic(auto, using(crate::proofs::Map::no_candidate, crate::proofs::Map::candidate_offset))]
fn first_offset(address: usize, sections: &[SectionTable], alignment: u32) -> Option<usize>
    requires { 0 < alignment }
    ensures { result ≡ option_map (λ s. address - s.virtual_address + raw_start s)
        (find (covers alignment address) sections.now) }
{
    let low = (address % (1 << 32)) as u32;
    let candidate = first_candidate(sections, low)?;
    match offset_by(&sections[candidate], alignment, address) {
        Some(offset) => Some(offset),
        None => offset_by_all_tests(address, sections, alignment),
    }
}

/// The file offset of an RVA, by the first section that covers it. `None` if no section does, or if the file alignment
/// is not a power of two. With `resolve_rva` off an RVA is its own file offset.
// Out of line, so that the scan has all registers and the callers save no more of theirs.
#[tactic(auto, using(crate::proofs::Map::positive, crate::proofs::Map::find_first), unfolding(crate::specs::SectionMap::offset_of))]
#[inline(never)]
pub fn find_offset(
    rva: usize,
    sections: &[SectionTable],
    file_alignment: u32,
    opts: &ParseOptions,
) -> Option<usize>
    ensures { result ≡ section_map opts.now sections.now file_alignment rva }
{
    if !opts.resolve_rva {
        return Some(rva);
    }
    if !file_alignment.is_power_of_two() {
        return None;
    }
    first_offset(rva, sections, file_alignment)
}
