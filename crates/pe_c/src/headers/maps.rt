//! The calls of `maps` in calls_headers.

ghost use Rattle.std.specs.Prelude.{Ok, ◌<◌};
ghost use Rattle.calls_base.specs.HandsOut.{HandsOutIf};
ghost use Rattle.calls_base.specs.Maps.{covers, section_range};
ghost use Rattle.calls_base.specs.MapRanges.{range_at, rva_at};
ghost use Rattle.calls_base.specs.SectionIndexes.{section_by};
ghost use Rattle.pe_lookup.specs.SectionIndexes.{sections_by};
ghost use Rattle.calls_base.specs.Loaded.{ChangesRoom, PutsImage, relocated_by};
ghost use Rattle.calls_base.specs.Views.{directory_sections};

use calls_base::image::directory;
use calls_base::loaded::relocate_by;
use calls_base::ranges::Range;
use calls_base::results::{DONE, NOTHING, ROOM, hand_out_some, number_of_directory};
use calls_base::view::View;
use calls_headers::map_ranges::{range_at, rva_at};
use calls_headers::maps::{covers, section_by, section_range};
use pe_core::SectionTable;
use pe_directories::{Runs, lay_out};
use pe_lookup::sections_by;

/// Returns the index of the section that maps an RVA: the first that covers it, by which `pe_c_offset` maps it.
/// `NOTHING` where none does, and in an image as loaded, where no section maps RVAs. It never returns an error.
#[unsafe(no_mangle)]
pub extern "C" fn pe_c_section_at(view: &View, rva: u32, out: &mut u64) -> u32
    ensures { HandsOutIf result out.old out.new
        (Ok (section_by view.now.image.now view.now.sections.now view.now.index.now rva)) }
{
    match section_by(view, rva) {
        Some(index) => {
            *out = index as u64;
            DONE
        }
        None => NOTHING,
    }
}

/// Returns the bytes that the RVAs of a section are mapped to, one after the other, up to the end of the bytes:
/// `NOTHING` without any. In an image as loaded they stand at the section's RVA, as many as its virtual size says, or
/// its raw size where that is 0. It never returns an error.
#[unsafe(no_mangle)]
pub extern "C" fn pe_c_section_range(view: &View, section: &SectionTable, out: &mut Range) -> u32
    ensures { HandsOutIf result out.old out.new
        (Ok (section_range view.now.bytes.now view.now.image.now section.now)) }
{
    let range = section_range(view.bytes, view.image, section);
    hand_out_some(Ok(range), out)
}

/// Returns the bytes from an RVA to the end of what its section has in the file: the first section that covers the RVA, by
/// which `pe_c_offset` maps it. `NOTHING` where none covers it, and where the file has no byte there. In an image as loaded the
/// bytes go from the RVA to the end of all. It never returns an error.
#[unsafe(no_mangle)]
pub extern "C" fn pe_c_range_at(view: &View, rva: u32, out: &mut Range) -> u32
    ensures { HandsOutIf result out.old out.new
        (Ok (range_at view.now.bytes.now view.now.image.now
        (sections_by view.now.sections.now view.now.index.now rva) rva)) }
{
    hand_out_some(Ok(range_at(view, rva)), out)
}

/// Returns the RVA that leads to a file offset, by the first section whose RVAs are mapped to it: `NOTHING` where none are, or
/// the RVA has more than 32 bits. Where sections share RVAs, `pe_c_offset` may map that RVA by another. In an image as loaded an
/// offset is its own RVA. It never returns an error.
#[unsafe(no_mangle)]
pub extern "C" fn pe_c_rva(view: &View, offset: u64, out: &mut u32) -> u32
    ensures { HandsOutIf result out.old out.new
        (Ok (rva_at view.now.image.now view.now.sections.now offset)) }
{
    hand_out_some(Ok(rva_at(view.image, view.sections, offset)), out)
}

/// Writes the image of a view as a loader lays it out to the start of `room`, as many bytes as `size_of_image` says, and that size
/// to `written`: the byte of the file at the offset to which `pe_c_offset` maps each RVA; where it maps it to none that of the
/// headers, which are `size_of_headers` bytes at the start of the file; zeros elsewhere. What follows in the room is unchanged.
/// Under many sections a view with an index takes a few steps for each, one without it tests them in turn for each.
///
/// Errors: `ROOM` where the room is smaller; then it is unchanged, and `written` is how many bytes it has to have.
#[unsafe(no_mangle)]
pub extern "C" fn pe_c_map(view: &View, room: &mut [u8], written: &mut u64) -> u32
    ensures { PutsImage view.now result room.old room.new written.new }
{
    let size = view.image.size_of_image as usize;
    *written = size as u64;
    if room.len() < size {
        return ROOM;
    }
    let (image, _) = room.split_at_mut(size);
    lay_out(view, view.bytes, view.image.size_of_headers, image);
    DONE
}

/// Relocates an image as loaded, which `pe_c_map` wrote to `room`: adds `difference`, the new base less the one that it has,
/// modulo 2^64, to the field of its header that has the image base, and to each number that the base relocations of the view name.
/// These are read from the bytes of the view, which are other bytes than the room. `NOTHING` where the image has none; then it is
/// unchanged.
///
/// Errors, in the order of the relocations, after which the room is unchanged: `UNMAPPED`, `SHORT` of the directory;
/// `DIRECTORY_RELOCATION_OUTSIDE` where the room does not have the field or a number; `DIRECTORY_BLOCK_SIZE`,
/// `DIRECTORY_BLOCK_TRUNCATED`, `SHORT`, `DIRECTORY_NO_ARGUMENT` of blocks and entries; `DIRECTORY_RELOCATION_KIND` of a type other
/// than ABSOLUTE, HIGH, LOW, HIGHLOW and DIR64.
#[unsafe(no_mangle)]
pub extern "C" fn pe_c_relocate(view: &View, difference: u64, room: &mut [u8]) -> u32
    ensures { ChangesRoom result room.old room.new
        (relocated_by view.now.bytes.now view.now.image.now (directory_sections view.now 5)
        difference room.old) }
{
    match relocate_by(view, difference, room) {
        Ok(true) => DONE,
        Ok(false) => NOTHING,
        Err(error) => number_of_directory(&error),
    }
}
