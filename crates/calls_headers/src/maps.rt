//! The section map, section by section: which section maps an RVA, and the bytes to which a section maps its RVAs. Tools show
//! these as the section's data, and look in them for what an RVA leads to.
//! https://learn.microsoft.com/windows/win32/debug/pe-format#section-table-section-headers

ghost use Rattle.std.specs.Prelude.{◌≡◌, position};
ghost use Rattle.calls_base.specs.Maps.{bytes_between, covers, memory_size, section_at, section_range};
ghost use Rattle.calls_base.specs.SectionIndexes.{section_by};

use calls_base::image::Image;
use calls_base::ranges::Range;
use calls_base::results::options;
use calls_base::view::View;
use pe_core::SectionTable;
use pe_directories::{raw_start, reach};
use pe_lookup::{number_found, numbered};

/// Whether the section covers an RVA; none does where the file alignment is not a power of two.
#[tactic(auto, using(pe_core::proofs::Map::positive))]
pub fn covers(section: &SectionTable, alignment: u32, rva: u32) -> bool
    ensures { result ≡ covers alignment rva section.now }
{
    if !alignment.is_power_of_two() {
        return false;
    }
    let (start, rva) = (u64::from(section.virtual_address), u64::from(rva));
    start <= rva && rva < start + reach(section, alignment)
}

/// The index of the first section that covers an RVA.
pub fn first_covering(sections: &[SectionTable], alignment: u32, rva: u32) -> Option<usize>
    ensures { result ≡ position (covers alignment rva) sections.now }
{
    sections
        .iter()
        .position(|section| covers(section, alignment, rva))
}

/// The index of the section that maps an RVA: the first that covers it. None in an image as loaded.
fn section_in(image: &Image, sections: &[SectionTable], rva: u32) -> Option<usize>
    ensures { result ≡ section_at image.now sections.now rva }
{
    if options(image.mode).resolve_rva {
        first_covering(sections, image.file_alignment, rva)
    } else {
        None
    }
}

/// The bytes from an offset up to another one, or to the end of all. `None` without any.
pub fn bytes_between(bytes: &[u8], from: u64, to: u64) -> Option<Range>
    ensures { result ≡ bytes_between bytes.now from to }
{
    let end = to.min(bytes.len() as u64);
    if from < end {
        Some(Range {
            offset: from,
            length: end - from,
        })
    } else {
        None
    }
}

/// The bytes of a section in memory.
fn memory_size(section: &SectionTable) -> u32
    ensures { result ≡ memory_size section.now }
{
    if section.virtual_size == 0 {
        section.size_of_raw_data
    } else {
        section.virtual_size
    }
}

/// The bytes that the RVAs of a section are mapped to.
#[tactic(auto, using(pe_core::proofs::Map::positive))]
pub fn section_range(bytes: &[u8], image: &Image, section: &SectionTable) -> Option<Range>
    ensures { result ≡ section_range bytes.now image.now section.now }
{
    if !options(image.mode).resolve_rva {
        let start = u64::from(section.virtual_address);
        return bytes_between(bytes, start, start + u64::from(memory_size(section)));
    }
    if !image.file_alignment.is_power_of_two() {
        return None;
    }
    let start = raw_start(section);
    bytes_between(bytes, start, start + reach(section, image.file_alignment))
}

/// The same by the index of a view, where it has one.
pub fn section_by(view: &View, rva: u32) -> Option<usize>
    ensures { result ≡ section_by view.now.image.now view.now.sections.now view.now.index.now rva }
{
    if view.index.is_empty() {
        return section_in(view.image, view.sections, rva);
    }
    let number = number_found(view.index, u64::from(rva));
    match section_in(view.image, numbered(view.sections, number), rva) {
        Some(_) => Some((number as usize).saturating_sub(1)),
        None => None,
    }
}
