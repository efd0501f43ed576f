//! What the section map says of bytes that follow one another: how many there are from an RVA on, and which RVA leads to the
//! byte at a file offset. Tools read texts and tables at RVAs by the first, and name places of a file by the second.
//! https://learn.microsoft.com/windows/win32/debug/pe-format#section-table-section-headers

ghost use Rattle.std.specs.Option.{option_and_then};
ghost use Rattle.std.specs.Prelude.{◌≡◌, position, slice_get};
ghost use Rattle.calls_base.specs.Maps.{covers};
ghost use Rattle.calls_base.specs.MapRanges.{holds_offset, range_at, range_in, rva_at, rva_in};
ghost use Rattle.pe_lookup.specs.SectionIndexes.{sections_by};

use crate::maps::{bytes_between, covers, first_covering};
use calls_base::image::Image;
use calls_base::ranges::Range;
use calls_base::results::options;
use calls_base::view::View;
use pe_core::SectionTable;
use pe_directories::{raw_start, reach};
use pe_lookup::sections_by;

/// The bytes from an RVA to the end of what its section has.
#[tactic(auto, using(pe_core::proofs::Map::positive))]
fn range_in(bytes: &[u8], section: &SectionTable, alignment: u32, rva: u32) -> Option<Range>
    ensures { result ≡ range_in bytes.now alignment rva section.now }
{
    if !covers(section, alignment, rva) {
        return None;
    }
    let start = raw_start(section);
    let inside = u64::from(rva) - u64::from(section.virtual_address);
    bytes_between(bytes, start + inside, start + reach(section, alignment))
}

/// The same of the first section that covers the RVA.
fn range_by_sections(
    bytes: &[u8],
    sections: &[SectionTable],
    alignment: u32,
    rva: u32,
) -> Option<Range>
    ensures { result ≡ option_and_then
        (λ i. option_and_then (range_in bytes.now alignment rva) (slice_get sections.now i))
        (position (covers alignment rva) sections.now) }
{
    match first_covering(sections, alignment, rva) {
        Some(index) => match sections.get(index) {
            Some(section) => range_in(bytes, section, alignment, rva),
            None => None,
        },
        None => None,
    }
}

/// The same in an image as loaded too, where it goes to the end of the bytes.
pub fn range_at(view: &View, rva: u32) -> Option<Range>
    ensures { result ≡ range_at view.now.bytes.now view.now.image.now
        (sections_by view.now.sections.now view.now.index.now rva) rva }
{
    if !options(view.image.mode).resolve_rva {
        return bytes_between(view.bytes, u64::from(rva), view.bytes.len() as u64);
    }
    let sections = sections_by(view.sections, view.index, u64::from(rva));
    range_by_sections(view.bytes, sections, view.image.file_alignment, rva)
}

/// Whether RVAs of a section are mapped to an offset; those of none are where the file alignment is not a power of two.
#[tactic(auto, using(pe_core::proofs::Map::positive))]
fn holds_offset(section: &SectionTable, alignment: u32, offset: u64) -> bool
    ensures { result ≡ holds_offset alignment offset section.now }
{
    if !alignment.is_power_of_two() {
        return false;
    }
    let start = raw_start(section);
    start <= offset && offset < start + reach(section, alignment)
}

/// The RVA by which a section leads to an offset. `None` where it has more than 32 bits.
fn rva_in(section: &SectionTable, offset: u64) -> Option<u32>
    ensures { result ≡ rva_in offset section.now }
{
    let start = raw_start(section);
    let rva = u64::from(section.virtual_address).saturating_add(offset.saturating_sub(start));
    if rva > u64::from(u32::MAX) {
        return None;
    }
    Some(rva as u32)
}

/// The index of the first section that holds an offset.
fn first_holding(sections: &[SectionTable], alignment: u32, offset: u64) -> Option<usize>
    ensures { result ≡ position (holds_offset alignment offset) sections.now }
{
    sections
        .iter()
        .position(|section| holds_offset(section, alignment, offset))
}

/// The RVA by the first section that holds the offset.
fn rva_by_sections(sections: &[SectionTable], alignment: u32, offset: u64) -> Option<u32>
    ensures { result ≡ option_and_then
        (λ i. option_and_then (rva_in offset) (slice_get sections.now i))
        (position (holds_offset alignment offset) sections.now) }
{
    match first_holding(sections, alignment, offset) {
        Some(index) => match sections.get(index) {
            Some(section) => rva_in(section, offset),
            None => None,
        },
        None => None,
    }
}

/// The same in an image as loaded too, where it is the offset itself.
pub fn rva_at(image: &Image, sections: &[SectionTable], offset: u64) -> Option<u32>
    ensures { result ≡ rva_at image.now sections.now offset }
{
    if !options(image.mode).resolve_rva {
        if offset > u64::from(u32::MAX) {
            return None;
        }
        return Some(offset as u32);
    }
    rva_by_sections(sections, image.file_alignment, offset)
}
