//! The RVAs near the last one that was mapped. The RVAs of one table mostly lie in one section, so a list that keeps the section of
//! its last RVA maps most of them without a search.
//! https://learn.microsoft.com/windows/win32/debug/pe-format#section-table-section-headers

ghost use Rattle.std.specs.Prelude.{◌≡◌, ◌+◌, ◌<◌, ◌≤◌, ◌^◌};
ghost use Rattle.pe_core.specs.SectionMap.{reach};
ghost use Rattle.pe_directories.specs.LoadedImages.{in_turn};
ghost use Rattle.calls_base.specs.Images.{map_of_image};
ghost use Rattle.calls_base.specs.NearMaps.{FindsWindow, IsWindow};
ghost use Rattle.calls_base.specs.Views.{map_of};

use crate::image::Image;
use crate::results::options;
use crate::view::{View, map_by};
use pe_core::{SectionTable, rounded_up};
use pe_directories::{raw_start, reach};

/// Raw sizes are rounded up to a multiple of this, as the section map does.
pub const PAGE: usize = 4096;

/// RVAs that follow one another, mapped to file offsets that follow one another.
#[derive(Clone, Copy)]
pub struct Window {
    /// The first RVA.
    pub start: u64,
    /// The RVA after the last.
    pub end: u64,
    /// The file offset of the first.
    pub offset: u64,
}

/// No RVA lies in it.
pub const NO_WINDOW: Window = Window {
    start: 0,
    end: 0,
    offset: 0,
};

/// All RVAs of an image as loaded, which are their own offsets.
const ALL: Window = Window {
    start: 0,
    end: 0x1_0000_0000,
    offset: 0,
};

/// Where the RVAs end that a section covers; or, without a division, an RVA after their end that is not past `rva`.
#[inline(always)]
#[tactic(auto, using(pe_core::proofs::Reaches::reach_by_raw))]
fn end_by(section: &SectionTable, alignment: u32, rva: u64) -> u64
    requires { 0 < alignment }
    ensures least { section.now.virtual_address + reach alignment section.now ≤ result }
    ensures exact { rva < result → result ≡ section.now.virtual_address + reach alignment section.now }
    ensures small { result < 2 ^ 34 }
{
    let start = u64::from(section.virtual_address);
    let most = start + rounded_up(section.size_of_raw_data as usize, PAGE) as u64;
    if most <= rva {
        return most;
    }
    start + reach(section, alignment)
}

/// The window of an RVA by sections that are tested in turn: the first that covers it maps it, and with it the RVAs around it that
/// no earlier one covers.
#[tactic(auto, using(crate::proofs::NearMaps::none_passed, crate::proofs::NearMaps::one_passed, crate::proofs::NearMaps::found, crate::proofs::NearMaps::none_covers))]
fn window_by_sections(sections: &[SectionTable], alignment: u32, rva: u64) -> Option<Window>
    requires aligned { 0 < alignment }
    requires small { rva < 2 ^ 32 }
    ensures { FindsWindow (in_turn alignment sections.now) rva result }
{
    let mut start = 0;
    let mut end = u64::MAX;
    let mut left = sections;
    while let Some((section, rest)) = left.split_first() {
        let first = u64::from(section.virtual_address);
        if rva < first {
            end = end.min(first);
        } else {
            let after = end_by(section, alignment, rva);
            if rva < after {
                let from = first.max(start);
                return Some(Window {
                    start: from,
                    end: end.min(after),
                    offset: from - first + raw_start(section),
                });
            }
            start = start.max(after);
        }
        left = rest;
    }
    None
}

/// The window of an RVA by these sections.
#[tactic(auto, using(pe_core::proofs::Map::positive, crate::proofs::NearMaps::as_loaded, crate::proofs::NearMaps::by_none, crate::proofs::NearMaps::by_sections))]
pub fn window_in(image: &Image, sections: &[SectionTable], rva: u32) -> Option<Window>
    ensures { FindsWindow (map_of_image image.now sections.now) rva result }
{
    if !options(image.mode).resolve_rva {
        return Some(ALL);
    }
    if !image.file_alignment.is_power_of_two() {
        return None;
    }
    window_by_sections(sections, image.file_alignment, u64::from(rva))
}

/// The window of an RVA. By an index it is the RVA alone: a search takes few steps there. Out of line, as it is rare.
#[cold]
#[inline(never)]
#[tactic(auto, using(crate::proofs::NearMaps::by_all, crate::proofs::NearMaps::by_one))]
fn window_of(view: &View, rva: u32) -> Option<Window>
    ensures { FindsWindow (map_of view.now) rva result }
{
    if view.index.is_empty() {
        return window_in(view.image, view.sections, rva);
    }
    let offset = map_by(view, rva)?;
    Some(Window {
        start: u64::from(rva),
        end: u64::from(rva) + 1,
        offset: offset as u64,
    })
}

/// The window of an RVA, which has no RVA where the RVA is not mapped.
#[tactic(auto, using(crate::proofs::NearMaps::no_window))]
pub fn window_at(view: &View, rva: u32) -> Window
    ensures { IsWindow (map_of view.now) result }
{
    match window_of(view, rva) {
        Some(window) => window,
        None => NO_WINDOW,
    }
}

/// The offset of an RVA, as `map_by` returns it: by the window, if the RVA lies in it.
#[tactic(auto, using(crate::proofs::NearMaps::inside))]
pub fn map_in(view: &View, rva: u32, window: &Window) -> Option<usize>
    requires { IsWindow (map_of view.now) window.now }
    ensures { result ≡ map_of view.now rva }
{
    let rva_64 = u64::from(rva);
    let Window { start, end, offset } = *window;
    let is_inside = start <= rva_64 && rva_64 < end;
    if is_inside {
        return Some((offset + (rva_64 - start)) as usize);
    }
    map_by(view, rva)
}

/// The offset of an RVA, as `map_by` returns it: by the window, if the RVA lies in it. Otherwise the window becomes that of the RVA,
/// if there is one.
#[inline(always)]
#[tactic(auto, using(crate::proofs::NearMaps::inside, crate::proofs::NearMaps::found_inside))]
pub fn map_near(view: &View, rva: u32, window: &mut Window) -> Option<usize>
    requires { IsWindow (map_of view.now) window.old }
    ensures offset { result ≡ map_of view.now rva }
    ensures window { IsWindow (map_of view.now) window.new }
{
    let rva_64 = u64::from(rva);
    let Window { start, end, offset } = *window;
    if start <= rva_64 && rva_64 < end {
        return Some((offset + (rva_64 - start)) as usize);
    }
    let found = window_of(view, rva)?;
    *window = found;
    Some((found.offset + (rva_64 - found.start)) as usize)
}
