//! Writes the file of an image with other resources into the caller's buffer. The caller has checked that everything fits.

ghost use Rattle.std.specs.Prelude.{◌≡◌, ◌+◌, ◌*◌, ◌^◌, ◌<◌, ◌≤◌, Ok, length, take};
ghost use Rattle.pe_core.specs.Bytes.{splice};
ghost use Rattle.pe_core.specs.Header.{header_view};
ghost use Rattle.pe_core.specs.Sections.{raw_end};
ghost use Rattle.pe_core.specs.Spelling.{spell_section};
ghost use Rattle.pe_edit.specs.EditRefusals.{section_of};
ghost use Rattle.pe_edit.specs.Views.{leaf_views};
ghost use Rattle.pe_edit.specs.Written.{section};
ghost use Rattle.pe_rewrite.specs.Edited.{CanMove, FieldsLie, GoneLies, Inside, Lies, PointersFit, changed, cleared_file, cut, edited_file, emptied_file, filled, gone_file, moved_file, pointers_moved, room_changes, roomy_file, sum_of, with_pointers, with_zeros};

use crate::debug::{POINTER_TO_RAW_DATA, SIZE_OF_DEBUG_ENTRY};
use crate::place::{Place, SIZE_OF_ENTRY};
use crate::room::{Room, moved};
use pe_core::{Header, SectionTable, read_u32, set_slice, set_u16, set_u32, set_zeros};
use pe_edit::{Leaves, write_section};
use pe_sign::checksum;

/// File offsets of fields of the headers, from the PE signature on.
const NUMBER_OF_SECTIONS: usize = 6;

const SYMBOLS: usize = 12;

const INITIALIZED: usize = 32;

const SIZE_OF_IMAGE: usize = 80;

const CHECKSUM: usize = 88;

/// The offset of a section's size in memory in its header, and that of the size in an entry of the data directories.
const VIRTUAL_SIZE: usize = 8;

const SIZE: usize = 4;

/// Writes the section with these leaves, which fills the buffer.
#[tactic(auto, using(crate::proofs::Writes::never_refused, crate::proofs::Writes::whole_written))]
fn set_section(out: &mut [u8], leaves: &Leaves<'_>, rva: u32)
    requires made { section_of rva (leaf_views leaves.now) ≡ Ok (section rva (leaf_views leaves.now)) }
    requires room { length (section rva (leaf_views leaves.now)) ≡ length out.old }
    ensures { out.new ≡ section rva (leaf_views leaves.now) }
{
    match write_section(leaves, rva, out) {
        Ok(_) => {}
        // The caller has checked that there is none.
        Err(_) => {}
    }
}

/// Writes the section with these leaves, of `size` bytes, at an offset.
#[tactic(auto, unfolding(pe_core::specs::Bytes::splice))]
fn set_section_at(out: &mut [u8], offset: usize, size: usize, leaves: &Leaves<'_>, rva: u32)
    requires made { section_of rva (leaf_views leaves.now) ≡ Ok (section rva (leaf_views leaves.now)) }
    requires size { length (section rva (leaf_views leaves.now)) ≡ size }
    requires room { offset + size ≤ length out.old }
    ensures { out.new ≡ splice out.old offset (section rva (leaf_views leaves.now)) }
{
    set_section(&mut out[offset..offset + size], leaves, rva);
}

/// Writes the resources, of `size` bytes, over the data of their section, and zeros after them.
#[tactic(auto, using(crate::proofs::Writes::filled_set))]
fn set_resources(out: &mut [u8], header: SectionTable, size: usize, leaves: &Leaves<'_>)
    requires made { section_of header.virtual_address (leaf_views leaves.now)
        ≡ Ok (section header.virtual_address (leaf_views leaves.now)) }
    requires size { length (section header.virtual_address (leaf_views leaves.now)) ≡ size }
    requires fits { size ≤ header.size_of_raw_data }
    requires room { raw_end header ≤ length out.old }
    ensures { out.new ≡ splice out.old header.pointer_to_raw_data
        (filled header (section header.virtual_address (leaf_views leaves.now))) }
{
    let start = header.pointer_to_raw_data as usize;
    set_section_at(out, start, size, leaves, header.virtual_address);
    set_zeros(out, start + size, header.size_of_raw_data as usize - size);
}

/// The checksum of a file whose header is this but for its checksum; 0 stays 0.
fn sum_of(file: &[u8], header: &Header<'_>) -> u32
    ensures { result ≡ sum_of (header_view header.now) file.now }
{
    match &header.optional_header {
        Some(optional_header) if optional_header.windows_fields.check_sum != 0 => {
            match checksum(file, header) {
                Ok(sum) => sum,
                // There is an optional header.
                Err(_) => 0,
            }
        }
        _ => 0,
    }
}

/// Writes these leaves into the file of `size` bytes at the start of the buffer, which has room for them.
fn set_over(out: &mut [u8], size: usize, header: &Header<'_>, place: Place, leaves: &Leaves<'_>)
    requires lies { Inside (header_view header.now) place size }
    requires made { section_of place.section.virtual_address (leaf_views leaves.now)
        ≡ Ok (section place.section.virtual_address (leaf_views leaves.now)) }
    requires length { length (section place.section.virtual_address (leaf_views leaves.now))
        ≡ place.length }
    requires room { size ≤ length out.old }
    ensures { out.new ≡ splice out.old 0
        (edited_file (header_view header.now) place (leaf_views leaves.now) (take size out.old)) }
{
    set_resources(out, place.section, place.length, leaves);
    let length = place.length as u32;
    set_u32(
        out,
        place.row + VIRTUAL_SIZE,
        place.section.virtual_size.max(length),
    );
    set_u32(out, place.entry, place.section.virtual_address);
    set_u32(out, place.entry + SIZE, length);
    let sum = sum_of(&out[..size], header);
    set_u32(out, header.dos_header.pe_pointer as usize + CHECKSUM, sum);
}

/// Writes the image with these leaves in place at the start of the buffer.
#[tactic(auto, using(crate::proofs::Writes::inside_of, crate::proofs::Writes::over_set))]
pub fn set_edited(
    out: &mut [u8],
    bytes: &[u8],
    header: &Header<'_>,
    place: Place,
    leaves: &Leaves<'_>,
)
    requires lies { Lies (header_view header.now) place (length bytes.now) }
    requires made { section_of place.section.virtual_address (leaf_views leaves.now)
        ≡ Ok (section place.section.virtual_address (leaf_views leaves.now)) }
    requires length { length (section place.section.virtual_address (leaf_views leaves.now))
        ≡ place.length }
    requires room { length bytes.now ≤ length out.old }
    ensures { out.new ≡ splice out.old 0
        (edited_file (header_view header.now) place (leaf_views leaves.now) bytes.now) }
{
    set_slice(out, 0, bytes);
    set_over(out, bytes.len(), header, place, leaves);
}

/// Writes a section header, 40 bytes.
fn set_row(out: &mut [u8], offset: usize, header: SectionTable)
    requires { offset + 40 ≤ length out.old }
    ensures { out.new ≡ splice out.old offset (spell_section header) }
{
    set_slice(out, offset, &header.name);
    set_u32(out, offset + 8, header.virtual_size);
    set_u32(out, offset + 12, header.virtual_address);
    set_u32(out, offset + 16, header.size_of_raw_data);
    set_u32(out, offset + 20, header.pointer_to_raw_data);
    set_u32(out, offset + 24, header.pointer_to_relocations);
    set_u32(out, offset + 28, header.pointer_to_linenumbers);
    set_u16(out, offset + 32, header.number_of_relocations);
    set_u16(out, offset + 34, header.number_of_linenumbers);
    set_u32(out, offset + 36, header.characteristics);
}

/// Writes the file with `more` zeros put in at `end`.
fn set_apart(out: &mut [u8], bytes: &[u8], end: usize, more: usize)
    requires end { end ≤ length bytes.now }
    requires room { length bytes.now + more ≤ length out.old }
    ensures { out.new ≡ splice out.old 0 (with_zeros end more bytes.now) }
{
    set_slice(out, 0, &bytes[..end]);
    set_zeros(out, end, more);
    set_slice(out, end + more, &bytes[end..]);
}

/// Writes the pointers of the debug entries, as they are when the data have moved.
#[tactic(auto, using(crate::proofs::Pointers::no_pointers, crate::proofs::Pointers::one_length, crate::proofs::Pointers::one_pointer))]
fn set_pointers(out: &mut [u8], bytes: &[u8], room: &Room)
    requires more { room.now.more < 2 ^ 33 }
    requires inside { 0 < room.now.debug.count →
        room.now.debug.offset + 28 * room.now.debug.count ≤ length bytes.now }
    requires fit { PointersFit room.now bytes.now }
    requires room { length bytes.now ≤ length out.old }
    ensures { out.new ≡ pointers_moved room.now bytes.now room.now.debug.count out.old }
{
    for index in 0..room.debug.count {
        let field = room.debug.offset + SIZE_OF_DEBUG_ENTRY * index + POINTER_TO_RAW_DATA;
        let offset = moved(room.end, room.more, read_u32(bytes, field));
        set_u32(out, field, offset as u32);
    }
}

/// Writes the fields of the headers that change, and the header of the section.
#[tactic(auto, using(crate::proofs::RoomWrites::fields_set))]
fn set_fields(out: &mut [u8], header: &Header<'_>, room: &Room)
    requires lies { FieldsLie (header_view header.now) room.now (length out.old) }
    ensures { out.new ≡ changed (room_changes (header_view header.now).dos_header.pe_pointer room.now) out.old }
{
    let pointer = header.dos_header.pe_pointer as usize;
    let place = room.place;
    set_u16(out, pointer + NUMBER_OF_SECTIONS, room.number_of_sections);
    set_u32(out, pointer + SYMBOLS, room.pointer_to_symbol_table);
    set_u32(out, pointer + INITIALIZED, room.size_of_initialized_data);
    set_u32(out, pointer + SIZE_OF_IMAGE, room.size_of_image);
    set_u32(out, place.entry, place.section.virtual_address);
    set_u32(out, place.entry + SIZE, place.length as u32);
    set_row(out, place.row, place.section);
}

/// Writes the file with room for resources, and with the pointers of debug entries moved.
fn set_room(out: &mut [u8], bytes: &[u8], header: &Header<'_>, room: &Room)
    requires moves { CanMove (header_view header.now) room.now bytes.now }
    requires more { room.now.more < 2 ^ 33 }
    requires room { length bytes.now + room.now.more ≤ length out.old }
    ensures { out.new ≡ splice out.old 0 (roomy_file (header_view header.now) room.now
        (with_pointers room.now bytes.now)) }
{
    set_apart(out, bytes, room.end, room.more);
    set_pointers(out, bytes, room);
    set_fields(out, header, room);
}

/// Writes the image with these leaves at its end to the start of the buffer.
pub fn set_moved(
    out: &mut [u8],
    bytes: &[u8],
    header: &Header<'_>,
    room: &Room,
    leaves: &Leaves<'_>,
)
    requires moves { CanMove (header_view header.now) room.now bytes.now }
    requires more { room.now.more < 2 ^ 33 }
    requires made { section_of room.now.place.section.virtual_address (leaf_views leaves.now)
        ≡ Ok (section room.now.place.section.virtual_address (leaf_views leaves.now)) }
    requires length { length (section room.now.place.section.virtual_address (leaf_views leaves.now))
        ≡ room.now.place.length }
    requires room { length bytes.now + room.now.more ≤ length out.old }
    ensures { out.new ≡ splice out.old 0
        (moved_file (header_view header.now) room.now (leaf_views leaves.now) bytes.now) }
{
    set_room(out, bytes, header, room);
    set_over(out, bytes.len() + room.more, header, room.place, leaves);
}

/// Writes the file without `less` bytes from `start` on.
fn set_cut(out: &mut [u8], bytes: &[u8], start: usize, less: usize)
    requires inside { start + less ≤ length bytes.now }
    requires room { length bytes.now ≤ length out.old + less }
    ensures { out.new ≡ splice out.old 0 (cut start less bytes.now) }
{
    set_slice(out, 0, &bytes[..start]);
    set_slice(out, start, &bytes[start + less..]);
}

/// Writes zeros for the entry of the resource directory at an offset, and the checksum, into the file of `size` bytes at the start
/// of the buffer.
#[tactic(auto, using(crate::proofs::Removed::cleared_set))]
fn set_cleared(out: &mut [u8], size: usize, header: &Header<'_>, entry: usize)
    requires sum { (header_view header.now).dos_header.pe_pointer + 92 ≤ size }
    requires entry { entry + 8 ≤ size }
    requires room { size ≤ length out.old }
    ensures { out.new ≡ splice out.old 0
        (cleared_file (header_view header.now) entry (take size out.old)) }
{
    set_zeros(out, entry, SIZE_OF_ENTRY);
    let sum = sum_of(&out[..size], header);
    set_u32(out, header.dos_header.pe_pointer as usize + CHECKSUM, sum);
}

/// Writes the image without its resource section.
pub fn set_gone(out: &mut [u8], bytes: &[u8], header: &Header<'_>, room: &Room)
    requires lies { GoneLies (header_view header.now) room.now (length bytes.now) }
    requires room { length bytes.now ≤ length out.old + room.now.more }
    ensures { out.new ≡ splice out.old 0 (cleared_file (header_view header.now) room.now.place.entry
        (gone_file (header_view header.now) room.now bytes.now)) }
{
    set_cut(out, bytes, room.end, room.more);
    set_fields(out, header, room);
    set_cleared(out, bytes.len() - room.more, header, room.place.entry);
}

/// Writes the image with zeros in the place of its resources.
#[tactic(auto, using(crate::proofs::Removed::cleared_over, crate::proofs::Removed::emptied_set, crate::proofs::Removed::length_emptied))]
pub fn set_emptied(out: &mut [u8], bytes: &[u8], header: &Header<'_>, place: &Place)
    requires sum { (header_view header.now).dos_header.pe_pointer + 92 ≤ length bytes.now }
    requires entry { place.now.entry + 8 ≤ length bytes.now }
    requires end { raw_end place.now.section ≤ length bytes.now }
    requires room { length bytes.now ≤ length out.old }
    ensures { out.new ≡ splice out.old 0
        (cleared_file (header_view header.now) place.now.entry (emptied_file place.now bytes.now)) }
{
    let section = place.section;
    set_slice(out, 0, bytes);
    set_zeros(
        out,
        section.pointer_to_raw_data as usize,
        section.size_of_raw_data as usize,
    );
    set_cleared(out, bytes.len(), header, place.entry);
}

/// Writes the image without the entry of its resource directory, which is at this offset.
#[tactic(auto, using(crate::proofs::Removed::cleared_over))]
pub fn set_kept(out: &mut [u8], bytes: &[u8], header: &Header<'_>, entry: usize)
    requires sum { (header_view header.now).dos_header.pe_pointer + 92 ≤ length bytes.now }
    requires entry { entry + 8 ≤ length bytes.now }
    requires room { length bytes.now ≤ length out.old }
    ensures { out.new ≡ splice out.old 0 (cleared_file (header_view header.now) entry bytes.now) }
{
    set_slice(out, 0, bytes);
    set_cleared(out, bytes.len(), header, entry);
}
