//! The image of a file as a loader lays it out in memory, and base relocations applied to it. Emulators, unpackers and tools that
//! compare a module in memory with its file begin with these two. Where an RVA is mapped, what is read of the image in the mode of
//! an image as loaded is what is read of the file.
//! https://learn.microsoft.com/windows/win32/debug/pe-format#section-data

ghost use Rattle.std.specs.Prelude.{◌≡◌, ◌<◌, ◌≤◌, length};
ghost use Rattle.pe_directories.specs.LoadedImages.{IsRun};
ghost use Rattle.calls_base.specs.Loaded.{RelocatesRoom, StartedUntil, base_field, number_of_last, relocated_by, start_of_last};
ghost use Rattle.calls_base.specs.Views.{directory_sections, map_of};

use crate::directories::{Result, image_at};
use crate::image::{BASE_RELOCATION_TABLE, Image, directory, is_absent};
use crate::results::options;
use crate::view::View;
use pe_core::RangeEntry;
use pe_directories::{
    BaseRelocation, IMAGE_REL_BASED_DIR64, IMAGE_REL_BASED_HIGHLOW, RelocationBlocks, Run, Runs,
    relocate, run_in,
};
use pe_lookup::{bits_of, numbered, power_of_two, start_by};

/// How many entries of an index start at or before an RVA, and before which RVA no other does.
#[derive(Clone, Copy)]
pub struct Started {
    count: usize,
    end: u64,
}

/// The start of the last of so many entries. The greatest number where there are fewer.
fn start_of_last(entries: &[RangeEntry], count: usize) -> u64
    requires { 0 < count }
    ensures { result ≡ start_of_last entries.now count }
{
    if count <= entries.len() {
        entries[count - 1].start
    } else {
        u64::MAX
    }
}

/// Counts the entries that start at or before an RVA, bit by bit. Each entry that is found to start after it starts after all RVAs
/// of the run, so that the search finds the same for all of them, also where the entries are not sorted.
fn started_until(entries: &[RangeEntry], rva: u32) -> Started
    ensures { StartedUntil entries.now rva result.count result.end }
{
    let mut count = 0;
    let mut end = u64::MAX;
    let mut bits = bits_of(entries.len());
    while bits > 0 {
        bits -= 1;
        let more = count + power_of_two(bits);
        if start_by(entries, u64::from(rva), more) {
            count = more;
        } else {
            end = end.min(start_of_last(entries, more));
        }
    }
    Started { count, end }
}

/// The number in the last of so many entries, 0 without one.
fn number_of_last(entries: &[RangeEntry], count: usize) -> u64
    requires { count ≤ length entries.now }
    ensures { result ≡ number_of_last entries.now count }
{
    if count == 0 {
        return 0;
    }
    entries[count - 1].number
}

/// The run of an RVA by the sections of a view, or by its index.
fn run_of(view: &View, rva: u32) -> Run
    ensures { IsRun (map_of view.now) rva result }
{
    let alignment = view.image.file_alignment;
    let options = options(view.image.mode);
    if view.index.is_empty() {
        return run_in(view.sections, alignment, &options, rva);
    }
    let started = started_until(view.index, rva);
    let number = number_of_last(view.index, started.count);
    let run = run_in(numbered(view.sections, number), alignment, &options, rva);
    Run {
        end: run.end.min(started.end),
        offset: run.offset,
    }
}

impl<'a> Runs for View<'a> {
    ghost to_offset = { λ v. map_of v };

    fn run_at(&self, rva: u32) -> Run {
        run_of(self, rva)
    }
}

/// The field that has the image base, as a relocation. `None` without an optional header.
fn base_field(image: &Image) -> Option<BaseRelocation>
    ensures { result ≡ base_field image.now }
{
    let (kind, before) = match image.width {
        64 => (IMAGE_REL_BASED_DIR64, 40),
        32 => (IMAGE_REL_BASED_HIGHLOW, 36),
        _ => return None,
    };
    Some(BaseRelocation {
        kind,
        rva: image.checksum_offset.saturating_sub(before) as usize,
        argument: None,
    })
}

/// Relocates an image as loaded by the table of a view, and returns whether there is a table.
pub fn relocate_by(view: &View, difference: u64, room: &mut [u8]) -> Result<bool>
    ensures { RelocatesRoom result (relocated_by view.now.bytes.now view.now.image.now
        (directory_sections view.now 5) difference room.old) room.old room.new }
{
    let table = directory(view.image, BASE_RELOCATION_TABLE);
    if is_absent(table) {
        return Ok(false);
    }
    let blocks = RelocationBlocks::parse(&image_at(view, table), table)?;
    relocate(room, base_field(view.image), blocks.rest(), difference)?;
    Ok(true)
}
