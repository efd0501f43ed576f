//! The calls: the file of an image with other resources, and its length.

ghost use Rattle.std.specs.Prelude.{◌≡◌, ◌+◌, ◌-◌, ◌^◌, ◌<◌, ◌≤◌, length};
ghost use Rattle.pe_core.specs.Bytes.{splice};
ghost use Rattle.pe_core.specs.Header.{header_view};
ghost use Rattle.pe_edit.specs.Views.{leaf_views};
ghost use Rattle.pe_rewrite.specs.Edited.{at_end, cleared_file, edited_length, edited_of, in_place, or_at_end, removed_of, stayed_file, wants_room, written};
ghost use Rattle.pe_rewrite.specs.Places.{headers_end};
ghost use Rattle.pe_rewrite.specs.Removals.{emptied_of};
ghost use Rattle.pe_rewrite.specs.RewriteRefusals.{RewriteReturns, RewriteReturnsWritten, rewrite_kind_of};

use crate::error::RewriteError;
use crate::place::{Target, find_place, find_target, require_headers};
use crate::put::{set_edited, set_emptied, set_gone, set_kept, set_moved};
use crate::removal::{find_emptied, find_gone};
use crate::room::{Room, find_room};
use pe_core::{Header, require_room};
use pe_edit::Leaves;

/// Whether the resources do not go into the section that they are in.
fn wants_room(error: &RewriteError) -> bool
    ensures { result ≡ wants_room (rewrite_kind_of error.now) }
{
    match error {
        RewriteError::Image(_) => false,
        RewriteError::NoDirectory(_) => false,
        RewriteError::Signed => false,
        RewriteError::Leaves(_) => false,
        RewriteError::Headers(_) => false,
        RewriteError::Alignment(_) => false,
        RewriteError::NoSection(_) => true,
        RewriteError::Section(_) => true,
        RewriteError::SharedSection(_) => true,
        RewriteError::Symbols(_) => true,
        RewriteError::Overlap(_) => true,
        RewriteError::NoRoom { .. } => true,
        RewriteError::NoHeaderRoom(_) => false,
        RewriteError::ImageTooLarge => false,
        RewriteError::DebugData(_) => true,
    }
}

/// The length of the file with these leaves in place.
fn len_in_place(
    bytes: &[u8],
    header: &Header<'_>,
    leaves: &Leaves<'_>,
) -> Result<usize, RewriteError>
    ensures { RewriteReturns result (edited_length
        (in_place bytes.now (header_view header.now) (leaf_views leaves.now))) }
{
    find_place(bytes, header, leaves)?;
    Ok(bytes.len())
}

/// The length of the file with this room.
fn length_with(bytes: &[u8], room: &Room) -> usize
    requires { room.now.more < 2 ^ 32 }
    ensures { result ≡ length bytes.now + room.now.more }
{
    bytes.len() + room.more
}

/// The length of the file with these leaves at the end of the image.
fn len_at_end(bytes: &[u8], header: &Header<'_>, leaves: &Leaves<'_>) -> Result<usize, RewriteError>
    ensures { RewriteReturns result (edited_length
        (at_end bytes.now (header_view header.now) (leaf_views leaves.now))) }
{
    let room = find_room(bytes, header, leaves)?;
    Ok(length_with(bytes, &room))
}

/// The length of the file without its resource section.
fn length_without(bytes: &[u8], room: &Room) -> usize
    requires { room.now.more ≤ length bytes.now }
    ensures { result ≡ length bytes.now - room.now.more }
{
    bytes.len() - room.more
}

/// The length of the file without resources.
fn removed_len(bytes: &[u8], header: &Header<'_>) -> Result<usize, RewriteError>
    ensures { RewriteReturns result (edited_length
        (removed_of bytes.now (header_view header.now))) }
{
    let target = find_target(header)?;
    require_headers(bytes, header, &target)?;
    match find_gone(bytes, header, &target) {
        Ok(room) => Ok(length_without(bytes, &room)),
        Err(_) => Ok(bytes.len()),
    }
}

/// The length of the file with these leaves in place, or at the end of the image.
#[tactic(auto, using(crate::proofs::Calls::length_first, crate::proofs::Calls::len_second, crate::proofs::Calls::len_neither))]
fn len_with_leaves(
    bytes: &[u8],
    header: &Header<'_>,
    leaves: &Leaves<'_>,
) -> Result<usize, RewriteError>
    ensures { RewriteReturns result (edited_length (or_at_end
        (in_place bytes.now (header_view header.now) (leaf_views leaves.now))
        (at_end bytes.now (header_view header.now) (leaf_views leaves.now)))) }
{
    match len_in_place(bytes, header, leaves) {
        Ok(length) => Ok(length),
        Err(error) => {
            if wants_room(&error) {
                len_at_end(bytes, header, leaves)
            } else {
                Err(error)
            }
        }
    }
}

/// The length of the file that `write_edited` writes with these arguments. Errors: those of `write_edited`, but for the
/// buffer's.
#[tactic(auto, using(crate::proofs::Calls::without_leaves, crate::proofs::Calls::with_leaves))]
pub fn edited_len(
    bytes: &[u8],
    header: &Header<'_>,
    leaves: &Leaves<'_>,
) -> Result<usize, RewriteError>
    ensures { RewriteReturns result (edited_length
        (edited_of bytes.now (header_view header.now) (leaf_views leaves.now))) }
{
    if leaves.len() == 0 {
        removed_len(bytes, header)
    } else {
        len_with_leaves(bytes, header, leaves)
    }
}

/// Writes the image with these leaves in place to the start of `out`.
fn write_in_place(
    bytes: &[u8],
    header: &Header<'_>,
    leaves: &Leaves<'_>,
    out: &mut [u8],
) -> Result<usize, RewriteError>
    ensures { RewriteReturnsWritten result (written
        (in_place bytes.now (header_view header.now) (leaf_views leaves.now)) out.old) out.old out.new }
{
    let place = find_place(bytes, header, leaves)?;
    require_room(out, 0, bytes.len())?;
    set_edited(out, bytes, header, place, leaves);
    Ok(bytes.len())
}

/// Writes the image with these leaves at its end to the start of `out`.
fn write_at_end(
    bytes: &[u8],
    header: &Header<'_>,
    leaves: &Leaves<'_>,
    out: &mut [u8],
) -> Result<usize, RewriteError>
    ensures { RewriteReturnsWritten result (written
        (at_end bytes.now (header_view header.now) (leaf_views leaves.now)) out.old) out.old out.new }
{
    let room = find_room(bytes, header, leaves)?;
    let length = length_with(bytes, &room);
    require_room(out, 0, length)?;
    set_moved(out, bytes, header, &room, leaves);
    Ok(length)
}

/// Writes the image with its resource section, but without an entry of the resource directory, to the start of `out`.
fn set_stayed(out: &mut [u8], bytes: &[u8], header: &Header<'_>, target: &Target)
    requires inside { headers_end (header_view header.now) ≤ length bytes.now }
    requires file { 0 < target.now.file_alignment }
    requires sum { (header_view header.now).dos_header.pe_pointer + 92 ≤ length bytes.now }
    requires entry { target.now.entry + 8 ≤ length bytes.now }
    requires room { length bytes.now ≤ length out.old }
    ensures { out.new ≡ splice out.old 0 (cleared_file (header_view header.now) target.now.entry
        (stayed_file (emptied_of bytes.now (header_view header.now) target.now) bytes.now)) }
{
    match find_emptied(bytes, header, target) {
        Ok(place) => set_emptied(out, bytes, header, &place),
        Err(_) => set_kept(out, bytes, header, target.entry),
    }
}

/// Writes the image without resources to the start of `out`.
fn write_removed(bytes: &[u8], header: &Header<'_>, out: &mut [u8]) -> Result<usize, RewriteError>
    ensures { RewriteReturnsWritten result (written
        (removed_of bytes.now (header_view header.now)) out.old) out.old out.new }
{
    let target = find_target(header)?;
    require_headers(bytes, header, &target)?;
    match find_gone(bytes, header, &target) {
        Ok(room) => {
            let length = length_without(bytes, &room);
            require_room(out, 0, length)?;
            set_gone(out, bytes, header, &room);
            Ok(length)
        }
        Err(_) => {
            require_room(out, 0, bytes.len())?;
            set_stayed(out, bytes, header, &target);
            Ok(bytes.len())
        }
    }
}

/// Writes the image with these leaves in place, or at its end, to the start of `out`.
#[tactic(auto, using(crate::proofs::Calls::written_first, crate::proofs::Calls::write_second, crate::proofs::Calls::write_neither))]
fn write_leaves(
    bytes: &[u8],
    header: &Header<'_>,
    leaves: &Leaves<'_>,
    out: &mut [u8],
) -> Result<usize, RewriteError>
    ensures { RewriteReturnsWritten result (written (or_at_end
        (in_place bytes.now (header_view header.now) (leaf_views leaves.now))
        (at_end bytes.now (header_view header.now) (leaf_views leaves.now))) out.old) out.old out.new }
{
    match write_in_place(bytes, header, leaves, out) {
        Ok(length) => Ok(length),
        Err(error) => {
            if wants_room(&error) {
                write_at_end(bytes, header, leaves, out)
            } else {
                Err(error)
            }
        }
    }
}

/// Writes the image with these resources to the start of `out`, and returns its length; the bytes of `out` after it stay as they
/// were. `bytes` is the whole file, `header` is the image's; the leaves are sorted, as `pe_edit::write_section` asks.
///
/// Without leaves the entry of the resource directory becomes one of zeros. The section that the resources are in goes, with its
/// data and its section header, if it is the last one in the section table, in the file and in memory, though not the only one, the
/// image ends with its pages, nothing else is in it, and no debug data are after it: what follows its data in the file moves back,
/// and with it the pointer to COFF symbols; `NumberOfSections`, `SizeOfInitializedData` and `SizeOfImage` become less. Otherwise
/// the section stays, with zeros in the place of its data if nothing else is in them.
///
/// With leaves the resources go over the data of the section that they are in, with zeros up to its end, if they fit there: it has
/// nothing else, no debug data and no base relocation either, its data and the image have room, and no section follows in memory
/// before their end. Its size in memory grows where it has to. Otherwise they go to the end of the image: if their section is the
/// last, has no debug data and no base relocation, its data grow, else a new section `.rsrc` follows the last one, and the old
/// section stays as it was. What follows the data of the sections in the file, such as an installer's data or COFF symbols, moves
/// by the bytes that are added, a multiple of the file alignment, and with it the pointer to the symbols and those of debug entries
/// whose data move. `NumberOfSections`, `SizeOfInitializedData` and `SizeOfImage` change as they have to.
///
/// The entry of the resource directory gets RVA and size of the resources, and the checksum is made good, or stays 0 where it
/// was 0. All other bytes of the file stay.
///
/// Errors, in this order, each of which leaves `out` as it was:
/// - `Image` with `NoOptionalHeader`; `NoDirectory` if there are fewer than three data directories;
/// - `Signed` if the image has certificates;
/// - `Leaves` with an error of `pe_edit::section_len`;
/// - `Headers` if the data directories end after the start of the section table; `Image` with `Short` if the section table is
///   truncated;
/// - `Alignment` if that of sections is below 4096, or that of their data below 512 or no power of two;
/// - of a new section, where the resources do not fit in place and their section does not grow: `ImageTooLarge` if its RVA or the
///   offset of its data is not below 2^32, and `Leaves` with `TooLarge` at its RVA; `SharedSection` if a base relocation, as far as
///   these are read, changes what is after the image in memory; `NoHeaderRoom` if no 40 zeros follow the section
///   table in the headers, there are 65,535 sections, or the PE signature lies in the DOS header; `ImageTooLarge` if the image
///   ends after 4 GB; `Section` if the data of all sections and the headers do not end in the file, at a multiple of the file
///   alignment; `SharedSection` if the entry point or a directory leads after the image in memory; `Symbols` if COFF symbols
///   start before the end of the data and end after it; `Overlap` if a section ends after the image in memory, by `SizeOfImage`,
///   or shares bytes with the headers; `DebugData` if the debug entries do not lie between the section headers and the section's
///   data, or the data of one neither end before the section's nor start after those of all sections, or are loaded after the
///   image;
/// - `Image` with `WriteFit` if the file does not fit into `out`.
#[tactic(auto, using(crate::proofs::Calls::without_leaves, crate::proofs::Calls::with_leaves))]
pub fn write_edited(
    bytes: &[u8],
    header: &Header<'_>,
    leaves: &Leaves<'_>,
    out: &mut [u8],
) -> Result<usize, RewriteError>
    ensures { RewriteReturnsWritten result (written
        (edited_of bytes.now (header_view header.now) (leaf_views leaves.now)) out.old) out.old out.new }
{
    if leaves.len() == 0 {
        write_removed(bytes, header, out)
    } else {
        write_leaves(bytes, header, leaves, out)
    }
}
