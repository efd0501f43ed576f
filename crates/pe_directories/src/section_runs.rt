//! Runs of RVAs: those that follow one another and are mapped to file offsets that follow one another, so that they are copied
//! as one piece. A caller goes from run to run in place of RVA to RVA.

ghost use Rattle.std.specs.Prelude.{◌≡◌, ◌<◌, ◌≤◌, ◌^◌, ℕ, Option};
ghost use Rattle.pe_core.specs.SectionMap.{raw_start, reach, section_map};
ghost use Rattle.pe_directories.specs.ImageParts.{image_view};
ghost use Rattle.pe_directories.specs.LoadedImages.{IsRun, in_turn, map_of};

use crate::image_bytes::ImageBytes;
use pe_core::{ParseOptions, SectionTable, rounded_up};

/// Raw pointers are rounded down to a multiple of this, as the section map does.
const SECTOR: u64 = 512;

/// Sizes are rounded up to a multiple of this, as the section map does.
const PAGE: usize = 4096;

/// RVAs that follow one another, up to an end. They are mapped to file offsets that follow one another, or none is mapped.
#[derive(Clone, Copy)]
pub struct Run {
    /// The RVA after the last.
    pub end: u64,
    /// The file offset of the first RVA. `None` if none of them is mapped.
    pub offset: Option<u64>,
}

/// A section map, run by run, however it finds the section of an RVA.
pub trait Runs {
    // the file offset of an RVA
    ghost to_offset: { Self → ℕ → Option ℕ };

    /// The run that starts with an RVA.
    fn run_at(&self, rva: u32) -> Run
        ensures { IsRun (to_offset self.now) rva result };
}

/// The file offset of the section's data, as the section map takes it.
pub fn raw_start(section: &SectionTable) -> u64
    ensures offset { result ≡ raw_start section.now }
    ensures small { result < 2 ^ 32 }
{
    u64::from(section.pointer_to_raw_data) / SECTOR * SECTOR
}

/// The number of RVAs that the section covers.
#[tactic(auto, unfolding(pe_core::specs::SectionMap::reach))]
pub fn reach(section: &SectionTable, alignment: u32) -> u64
    requires { 0 < alignment }
    ensures count { result ≡ reach alignment section.now }
    ensures small { result < 2 ^ 33 }
{
    let end = section.pointer_to_raw_data as usize + section.size_of_raw_data as usize;
    let raw_size = rounded_up(section.size_of_raw_data as usize, PAGE) as u64;
    let raw_end = rounded_up(end, alignment as usize) as u64;
    let raw = (raw_end - raw_start(section)).min(raw_size);
    if section.virtual_size == 0 {
        raw
    } else {
        raw.min(rounded_up(section.virtual_size as usize, PAGE) as u64)
    }
}

/// The run of an RVA by sections that are tested in turn: the first that covers it maps it, up to its end or to the start of an
/// earlier one.
#[tactic(auto, using(crate::proofs::SectionRuns::none_passed, crate::proofs::SectionRuns::one_passed, crate::proofs::SectionRuns::found, crate::proofs::SectionRuns::none_covers))]
fn run_by_sections(sections: &[SectionTable], alignment: u32, rva: u32) -> Run
    requires { 0 < alignment }
    ensures { IsRun (in_turn alignment sections.now) rva result }
{
    let rva = u64::from(rva);
    let mut end = u64::MAX;
    let mut left = sections;
    while let Some((section, rest)) = left.split_first() {
        let start = u64::from(section.virtual_address);
        let stop = start + reach(section, alignment);
        if start <= rva && rva < stop {
            return Run {
                end: end.min(stop),
                offset: Some(rva - start + raw_start(section)),
            };
        }
        if rva < start {
            end = end.min(start);
        }
        left = rest;
    }
    Run { end, offset: None }
}

/// The run of an RVA by these sections, which are tested in turn.
#[tactic(auto, using(pe_core::proofs::Map::positive))]
pub fn run_in(sections: &[SectionTable], file_alignment: u32, opts: &ParseOptions, rva: u32) -> Run
    ensures { IsRun (section_map opts.now sections.now file_alignment) rva result }
{
    if !opts.resolve_rva {
        return Run {
            end: u64::MAX,
            offset: Some(u64::from(rva)),
        };
    }
    if !file_alignment.is_power_of_two() {
        return Run {
            end: u64::MAX,
            offset: None,
        };
    }
    run_by_sections(sections, file_alignment, rva)
}

// The sections are tested in turn for each run.
impl<'a> Runs for ImageBytes<'a> {
    ghost to_offset = { λ i. map_of (image_view i) };

    fn run_at(&self, rva: u32) -> Run {
        run_in(self.sections, self.file_alignment, &self.opts, rva)
    }
}
