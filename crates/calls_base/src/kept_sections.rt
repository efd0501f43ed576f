//! The sections that a walk keeps. The RVAs of one table mostly lie in one section or two, so a walk that tests the sections of its
//! last RVAs first maps most of them without a search. Where sections overlap the first in the table maps an RVA: a walk keeps none that
//! shares an RVA with an earlier one.
//! https://learn.microsoft.com/windows/win32/debug/pe-format#section-table-section-headers

ghost use Rattle.std.specs.Prelude.{◌≡◌, ◌<◌, length, true, ⊤, IfSome};
ghost use Rattle.pe_core.specs.Refusals.{Returns};
ghost use Rattle.pe_core.specs.SectionMap.{mapped};
ghost use Rattle.pe_lookup.specs.SectionIndexes as indexes;
ghost use Rattle.calls_base.specs.Images.{map_of_image};
ghost use Rattle.calls_base.specs.SectionIndexes.{is_searched};
ghost use Rattle.calls_base.specs.KeptSections.{ChangeNothing, HasAll, IsAlone, keeps_sections, map_kept, no_sections};

use crate::image::Image;
use crate::named_view::NamedView;
use crate::near_map::{PAGE, Window, window_in};
use crate::results::options;
use crate::section_index::is_searched;
use crate::view::{View, map_u64, sections_of};
use pe_core::{Error, Reason, Result, RvaMap, SectionTable, find_offset, rounded_up};
use pe_directories::{raw_start, reach};
use pe_lookup::numbered;
use std::alloc::AllocError;

/// The sections of the last RVAs of a walk. Only steps read and write it: where it is not as a step left it, and sections overlap, a
/// step may return another offset, and no other harm is done.
#[repr(C)]
#[derive(Clone, Copy)]
pub struct KeptSections {
    /// The index of a section plus 1; 0 for none, as at the start of a walk; 0xFFFFFFFF for none where sections may overlap.
    pub first: u32,
    /// The same of the one that was kept before it.
    pub second: u32,
}

/// No section, as at the start of a walk.
pub const NO_SECTIONS: KeptSections = KeptSections {
    first: 0,
    second: 0,
};

/// Whether a walk keeps none.
#[inline(always)]
pub fn keeps_none(kept: &KeptSections) -> bool
    ensures { result ≡ true → kept.now ≡ no_sections }
{
    kept.first == 0 && kept.second == 0
}

/// Walks over an image of so many sections keep none: to search them takes less than to test those that a walk keeps.
const FEW: usize = 32;

/// Whether walks over an image keep sections.
#[inline(always)]
pub fn keeps_sections(view: &View) -> bool
    ensures { result ≡ keeps_sections view.now }
{
    view.sections.len() > FEW && view.index.is_empty()
}

/// A walk in a list, and the sections that it keeps. They change no offset, whatever the walk of the caller kept.
pub struct KeptWalk<'a, W> {
    /// The image.
    pub names: NamedView<'a>,
    /// Where the walk stands.
    pub walk: W,
    /// The sections of its last RVAs.
    pub kept: KeptSections,
    ghost right: { ChangeNothing names.view.now kept },
}

// By hand, as a derive would not know of the ghost field.
impl<'a, W: Copy> Copy for KeptWalk<'a, W> {}

impl<'a, W: Copy> Clone for KeptWalk<'a, W> {
    ghost is_clone = { λ x y. (y.names ≡ x.names) × (y.walk ≡ x.walk) × (y.kept ≡ x.kept) };

    ghost is_infallible = { λ _. ⊤ };

    fn clone(&self) -> std::result::Result<Self, AllocError> {
        Ok(KeptWalk {
            names: self.names,
            walk: self.walk,
            kept: self.kept,
        })
    }
}

/// The offset of an RVA by the section with an index plus 1.
#[inline(always)]
fn offset_in(view: &View, number: u32, rva: u64) -> Option<usize>
    ensures { result ≡ map_of_image view.now.image.now
        (indexes.numbered view.now.sections.now number) rva }
{
    let image = view.image;
    find_offset(
        rva as usize,
        numbered(view.sections, u64::from(number)),
        image.file_alignment,
        &options(image.mode),
    )
}

/// The offset of an RVA, of which these sections are tested first.
#[tactic(auto, using(crate::proofs::KeptSections::by_none, crate::proofs::KeptSections::by_first, crate::proofs::KeptSections::by_second, crate::proofs::KeptSections::by_others))]
pub fn map_kept(view: &View, kept: KeptSections, rva: u64) -> Option<usize>
    ensures { result ≡ map_kept view.now kept rva }
{
    if kept.first == 0 && kept.second == 0 {
        return map_u64(view, rva);
    }
    match offset_in(view, kept.first, rva) {
        Some(offset) => Some(offset),
        None => match offset_in(view, kept.second, rva) {
            Some(offset) => Some(offset),
            None => map_u64(view, rva),
        },
    }
}

/// The sections that may map an RVA: of those that are kept the one that does, else as without them.
#[tactic(auto, using(crate::proofs::KeptSections::by_first, crate::proofs::KeptSections::by_second, crate::proofs::KeptSections::by_others))]
pub fn sections_for<'a>(view: &View<'a>, kept: KeptSections, rva: u32) -> &'a [SectionTable]
    ensures { map_of_image view.now.image.now result.now rva ≡ map_kept view.now kept rva }
{
    let rva_64 = u64::from(rva);
    match offset_in(view, kept.first, rva_64) {
        Some(_) => numbered(view.sections, u64::from(kept.first)),
        None => match offset_in(view, kept.second, rva_64) {
            Some(_) => numbered(view.sections, u64::from(kept.second)),
            None => sections_of(view, rva),
        },
    }
}

/// The same, or `Unmapped`.
pub fn require_kept(view: &View, kept: KeptSections, rva: u32) -> Result<usize>
    ensures { Returns result (mapped (map_kept view.now kept rva)) }
{
    match map_kept(view, kept, u64::from(rva)) {
        Some(offset) => Ok(offset),
        None => Err(Error::Malformed(Reason::Unmapped(u64::from(rva)))),
    }
}

/// An image whose RVAs are mapped by these sections first.
#[derive(Clone, Copy)]
pub struct KeptView<'a> {
    /// The image.
    pub view: &'a View<'a>,
    /// What a walk keeps.
    pub kept: KeptSections,
}

impl<'a> RvaMap for KeptView<'a> {
    ghost offset = { λ m. map_kept m.view.now m.kept };

    fn file_offset(&self, rva: u32) -> Result<usize> {
        require_kept(self.view, self.kept, rva)
    }
}

/// Whether a window has all RVAs that a section covers, and maps them as the section does: no earlier section covers one.
fn has_all(window: &Window, section: &SectionTable, alignment: u32) -> bool
    requires { 0 < alignment }
    ensures yes { result ≡ true → HasAll alignment section.now window.now }
    ensures no { HasAll alignment section.now window.now → result ≡ true }
{
    let start = u64::from(section.virtual_address);
    window.start == start
        && start + reach(section, alignment) <= window.end
        && window.offset == raw_start(section)
}

/// The index of the first section that starts where a window does, and ends after an RVA of it.
fn index_from(window: &Window, sections: &[SectionTable], alignment: u32, rva: u64) -> Option<usize>
    requires { 0 < alignment }
    ensures { IfSome result (λ i. i < length sections.now) }
{
    for i in 0..sections.len() {
        let start = u64::from(sections[i].virtual_address);
        if start == window.start && rva < start + reach(&sections[i], alignment) {
            return Some(i);
        }
    }
    None
}

/// A number past the last section. A walk keeps it where the section of an RVA may overlap an earlier one, whose size is rounded up to a
/// page for that test, and then looks for no other section: each such search passes over all sections.
const OVERLAPS: u32 = 0xffff_ffff;

/// The index plus 1 of the section that maps an RVA. `OVERLAPS` if it may share one with an earlier one, none if the RVA is not
/// mapped, or if there are so many sections that an index plus 1 is no number below `OVERLAPS`.
#[tactic(auto, using(crate::proofs::KeptSections::none_alone))]
fn number_alone(image: &Image, sections: &[SectionTable], rva: u32) -> Option<u32>
    requires searched { is_searched image.now ≡ true }
    requires aligned { 0 < image.now.file_alignment }
    ensures { IfSome result (IsAlone image.now sections.now) }
{
    if sections.len() >= OVERLAPS as usize {
        return None;
    }
    let alignment = image.file_alignment;
    let window = window_in(image, sections, rva)?;
    let Some(index) = index_from(&window, sections, alignment, u64::from(rva)) else {
        return Some(OVERLAPS);
    };
    if has_all(&window, &sections[index], alignment) {
        Some((index + 1) as u32)
    } else {
        Some(OVERLAPS)
    }
}

/// What a walk keeps after an RVA that none of its sections maps. Out of line, as it is rare.
#[cold]
#[inline(never)]
#[tactic(auto, using(crate::proofs::KeptSections::one_more))]
fn kept_anew(view: &View, kept: KeptSections, rva: u32) -> KeptSections
    requires { keeps_sections view.now ≡ true }
    ensures { ChangeNothing view.now kept → ChangeNothing view.now result }
{
    if kept.first == OVERLAPS || !is_searched(view.image) {
        return kept;
    }
    match number_alone(view.image, view.sections, rva) {
        Some(number) => KeptSections {
            first: number,
            second: kept.first,
        },
        None => kept,
    }
}

/// Whether the section with an index plus 1 may cover an RVA: its raw size, rounded up to a page, reaches it. It need not map it, and then
/// the walk keeps no other for it: a test of few instructions, as each step makes it.
#[inline(always)]
fn has_page_of(sections: &[SectionTable], number: u32, rva: u32) -> bool {
    if number == 0 || number as usize > sections.len() {
        return false;
    }
    let section = &sections[number as usize - 1];
    let start = section.virtual_address;
    let end = rounded_up(section.size_of_raw_data as usize, PAGE);
    start <= rva && ((rva - start) as usize) < end
}

/// What a walk keeps after an RVA.
pub fn kept_after(view: &View, kept: KeptSections, rva: u32) -> KeptSections
    ensures { ChangeNothing view.now kept → ChangeNothing view.now result }
{
    if !keeps_sections(view)
        || has_page_of(view.sections, kept.first, rva)
        || has_page_of(view.sections, kept.second, rva)
    {
        return kept;
    }
    kept_anew(view, kept, rva)
}
