//! Walks over the entries of the debug directory, 28 bytes each, and over those of a POGO record: the RVA and the size
//! of a part of the image, then its name, padded to a multiple of 4 bytes.
//! https://learn.microsoft.com/windows/win32/debug/pe-format#the-debug-section

ghost use Rattle.std.specs.Prelude.{◌≡◌, ◌+◌, ◌≤◌, ◌^◌, length, Ok};
ghost use Rattle.pe_core.specs.Refusals.{answer_of};
ghost use Rattle.pe_records.specs.DebugDirectory.{debug_entry_at};
ghost use Rattle.calls_headers.specs.Debug.{IsNamed, StepsPogo, StepsPogoEntries, StepsOverPogo, pogo_entry};
ghost use Rattle.calls_base.specs.Walks.{next_of, walk_of};
ghost use Rattle.calls_base.specs.HandsOut.{result_number};
ghost use Rattle.calls_base.specs.Lists.{Numbered};

use calls_base::lists::{Steps, numbered};
use calls_base::ranges::{NO_BYTES, Range, slice_of};
use calls_base::walks::next_entry;
use pe_core::{Result, rounded_up};
use pe_records::{
    IMAGE_DEBUG_DIRECTORY_SIZE, ImageDebugDirectory, POGOEntryIterator, POGOInfoEntry,
};

/// An entry of a POGO record: a part of the image.
#[repr(C)]
#[derive(Clone, Copy)]
pub struct PogoEntry {
    /// The name of the part, with its final zero.
    pub name: Range,
    /// RVA of the part.
    pub rva: u32,
    /// Bytes of the part.
    pub size: u32,
}

pub fn next_debug_entry(bytes: &[u8], walk: &mut Range) -> Result<Option<ImageDebugDirectory>>
    ensures entry { answer_of result ≡ next_of (debug_entry_at 0) 28 bytes.now walk.old }
    ensures walk { walk.new ≡ walk_of 28 bytes.now walk.old }
{
    match next_entry(bytes, walk, IMAGE_DEBUG_DIRECTORY_SIZE)? {
        Some(left) => Ok(Some(ImageDebugDirectory::at(left, 0, 0))),
        None => Ok(None),
    }
}

/// One step over the bytes that a walk has left.
#[tactic(auto, using(crate::proofs::Steps::taken))]
fn step<'a>(left: &'a [u8], walk: &mut Range) -> Option<Result<POGOInfoEntry<'a>>>
    requires inside { walk.old.offset + walk.old.length ≤ 2 ^ 63 }
    requires length { walk.old.length ≡ length left.now }
    ensures { StepsOverPogo (Ok left.entry.now) walk.old result walk.new }
{
    let entry = POGOEntryIterator::new(left).next();
    match &entry {
        None => (),
        Some(Ok(entry)) => {
            let taken = rounded_up(8 + entry.name.len(), 4) as u64;
            *walk = Range {
                offset: walk.offset + taken,
                length: walk.length - taken,
            };
        }
        Some(Err(_)) => *walk = NO_BYTES,
    }
    entry
}

#[tactic(auto, using(crate::proofs::Steps::named))]
fn next_pogo_entry<'a>(bytes: &'a [u8], walk: &mut Range) -> Option<Result<POGOInfoEntry<'a>>>
    ensures step { StepsPogo bytes.entry.now walk.old result walk.new }
    ensures name { IsNamed bytes.entry.now walk.old result }
{
    match slice_of(bytes, walk) {
        Ok(left) => step(left, walk),
        Err(error) => {
            *walk = NO_BYTES;
            Some(Err(error))
        }
    }
}

fn pogo_entry(walk: &Range, entry: &POGOInfoEntry) -> PogoEntry
    requires { walk.now.offset ≤ 2 ^ 63 }
    ensures { result ≡ pogo_entry walk.now entry.now }
{
    PogoEntry {
        name: Range {
            offset: walk.offset + 8,
            length: entry.name.len() as u64,
        },
        rva: entry.rva,
        size: entry.size,
    }
}

/// The next entry of a POGO record as callers get it.
pub fn next_pogo_reported(bytes: &[u8], walk: &mut Range) -> Result<Option<PogoEntry>>
    ensures { StepsPogoEntries bytes.now walk.old (answer_of result) walk.new }
{
    let here = *walk;
    match next_pogo_entry(bytes, walk) {
        Some(Ok(entry)) => Ok(Some(pogo_entry(&here, &entry))),
        None => Ok(None),
        Some(Err(error)) => Err(error),
    }
}

/// Steps over the entries of a POGO record.
#[derive(Clone, Copy)]
pub struct PogoEntries<'a> {
    pub bytes: &'a [u8],
}

impl<'a> Steps<Range, PogoEntry> for PogoEntries<'a> {
    ghost steps = { λ s. Numbered result_number (StepsPogoEntries s.bytes.now) };

    fn step(&self, walk: &mut Range) -> std::result::Result<Option<PogoEntry>, u32> {
        numbered(next_pogo_reported(self.bytes, walk))
    }
}
