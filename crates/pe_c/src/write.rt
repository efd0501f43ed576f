//! Calls that write images, sections, resources, version information and certificates, over calls_write.

ghost use Rattle.calls_base.specs.HandsOut.{HandsOut, HandsOutWritten};
ghost use Rattle.calls_base.specs.WrittenFiles.{HandsOutFile, HandsOutImage};
ghost use Rattle.calls_write.specs.ImageWrites.{certificates_written_at, image_length_at, image_written_at, whole_length_at, whole_written_at, sections_written_at};
ghost use Rattle.calls_write.specs.ResourceEdits.{edited_at, block_at, block_with, version_numbered};
ghost use Rattle.calls_write.specs.Signing.{attached_at, checksum_at, detached_at, digest_at};
ghost use Rattle.pe_version.specs.VersionRecords.{version_at};

use calls_base::results::{DONE, ROOM, WRITE_FIT, hand_out, hand_out_length, number_of};
use calls_base::view::View;
use calls_write::image::{
    image_length, whole_length, write_certificates, write_image, write_sections, write_whole,
};
use calls_write::resources::{edit_to, edited_length};
use calls_write::signing::{
    ChecksumField, Digest, attach_to, attached_length, checksum_at, detach_to, detached_length,
    digest_at,
};
use calls_write::version::{block_length, version_length, version_to, write_to};
use pe_edit::ResourceRecord;
use pe_resource::VsFixedFileInfo;
use pe_sign::checksum;
use pe_version::{LanguageRecord, NewBlock, StringRecord, TableRecord, VersionRecords};

// ---- image

/// Writes the certificates to the room, one after the other from the offset of their directory on, each with zeros up to a multiple
/// of 8 bytes. Puts the offset after the last one to `out`, 0 where none is written.
///
/// Errors: those of `pe_c_image`; in strict mode those of the certificates, as `pe_c_next_certificate` returns them;
/// `NO_OPTIONAL_HEADER`; `WRITE_FIT`. After an error the room and `out` are unchanged.
#[unsafe(no_mangle)]
pub extern "C" fn pe_c_write_certificates(view: &View, room: &mut [u8], out: &mut u64) -> u32
    ensures { HandsOutWritten result out.old out.new room.old room.new
        (certificates_written_at view.now room.old) }
{
    hand_out(write_certificates(view, room), out)
}

/// Writes the image to the room: the headers, the sections as `pe_c_write_sections` does, padded to the file alignment, with
/// their headers in the section table, and the certificates from the offset of their directory on. Puts to `written` the greatest of
/// three offsets: the start of the section table, the end of the data of the last section with the greatest raw pointer, the end
/// of the certificates. Without a section the first may lie past the end of the room. Where the room is smaller than the greatest end of
/// what is written all of it is unchanged, and `written` has that end.
///
/// Errors: those of `pe_c_image`; in strict mode those of the certificates, as `pe_c_next_certificate` returns them;
/// `NO_OPTIONAL_HEADER`; `WRITE_ALIGNMENT` unless the file alignment is a power of two; `WRITE_SYMBOLS` unless the pointer to COFF
/// symbols is 0; `WRITE_OVERLAP`, `WRITE_SECTION` as of `pe_c_write_sections`; `WRITE_FIT` if no room is long enough; `ROOM`. After an
/// error the room is unchanged, and after others than `ROOM` `written` too.
#[unsafe(no_mangle)]
pub extern "C" fn pe_c_write_image(view: &View, room: &mut [u8], written: &mut u64) -> u32
    ensures { HandsOutImage result written.old written.new room.old room.new (image_length_at view.now)
        (image_written_at view.now room.old) }
{
    match image_length(view) {
        Ok(length) => {
            if length <= room.len() as u64 {
                hand_out(write_image(view, room), written)
            } else {
                *written = length;
                ROOM
            }
        }
        Err(error) => number_of(&error),
    }
}

/// Writes the whole file to the room, and over it the headers, the sections without zeros after them, and the certificates. So
/// what none of these describes stays: COFF symbols, bytes between sections and after them. Puts to `written` the greater of the
/// file's length and of what `pe_c_write_image` puts there. Where the room is smaller than the file, or than the greatest end of what is
/// written over it, all of it is unchanged, and `written` has the greater of both.
///
/// Errors: those of `pe_c_image`; in strict mode those of the certificates; `NO_OPTIONAL_HEADER`; `WRITE_OVERLAP`, `WRITE_SECTION`;
/// `WRITE_FIT` if no room is long enough; `ROOM`. After an error the room is unchanged, and after others than `ROOM` `written` too.
#[unsafe(no_mangle)]
pub extern "C" fn pe_c_write_whole(view: &View, room: &mut [u8], written: &mut u64) -> u32
    ensures { HandsOutImage result written.old written.new room.old room.new (whole_length_at view.now)
        (whole_written_at view.now room.old) }
{
    match whole_length(view) {
        Ok(length) => {
            if length <= room.len() as u64 {
                hand_out(write_whole(view, room), written)
            } else {
                *written = length;
                ROOM
            }
        }
        Err(error) => number_of(&error),
    }
}

// ---- resources

/// Writes the image with these resources in place of those that it has to the start of `room`, and its length to `written`, which is that
/// of the image or more, or less without resources, where the section goes that they are in if it is the last one; otherwise it
/// stays, as zeros if nothing else is in it. The rest of the room is unchanged. Where the room is smaller all of it is, and
/// `written` has the length that it needs. The resources are sorted by type, name and language: names before ids, names by their
/// code units, ids and languages by their numbers. Their names and contents are ranges of `data`.
///
/// Errors: those of `pe_c_image`; `EDIT_RECORD`, `EDIT_NAMES`, `EDIT_CONTENTS`; `NO_OPTIONAL_HEADER`, `EDIT_NO_DIRECTORY`; `EDIT_SIGNED`;
/// `EDIT_TOO_MANY`, `EDIT_NAME`, `EDIT_ORDER`, `EDIT_TABLES_TOO_LARGE`, `EDIT_TOO_LARGE`; `EDIT_HEADERS`, `SHORT` of the section
/// table; `EDIT_ALIGNMENT`; of a new section `EDIT_IMAGE_TOO_LARGE`, `EDIT_NO_HEADER_ROOM`, `EDIT_SECTION`,
/// `EDIT_SHARED_SECTION`, `EDIT_SYMBOLS`, `EDIT_OVERLAP`, `EDIT_DEBUG_DATA`; `ROOM` if the file does not fit into the room.
/// After an error the room is unchanged, and after others than `ROOM` `written` too.
#[unsafe(no_mangle)]
pub extern "C" fn pe_c_edit(
    view: &View,
    resources: &[ResourceRecord],
    data: &[u8],
    room: &mut [u8],
    written: &mut u64,
) -> u32
    ensures { HandsOutFile result written.old written.new room.old room.new
        (edited_at view.now.bytes.now view.now.image.now data.now resources.now) }
{
    if room.is_empty() {
        return hand_out_length(edited_length(view, resources, data), 0, written);
    }
    match edit_to(view, resources, data, room) {
        Ok(length) => {
            *written = length as u64;
            DONE
        }
        Err(number) => {
            if number == WRITE_FIT {
                hand_out_length(edited_length(view, resources, data), room.len(), written)
            } else {
                number
            }
        }
    }
}

// ---- sections

/// Writes the sections of the view to the room: for each its data at the raw pointer, its header, and zeros after the data up to a
/// multiple of `unit` bytes; no zeros where that is 0. The headers are written one after the other, from `next` on, which moves
/// past them.
///
/// Errors: `WRITE_OVERLAP` if two unequal sections share a byte of the file; `WRITE_SECTION` if the data of a section is not in the
/// bytes; `WRITE_FIT`. After an error the room and `next` are unchanged.
#[unsafe(no_mangle)]
pub extern "C" fn pe_c_write_sections(
    view: &View,
    unit: u32,
    room: &mut [u8],
    next: &mut u64,
) -> u32
    ensures { HandsOutWritten result next.old next.new room.old room.new
        (sections_written_at view.now unit next.old room.old) }
{
    hand_out(write_sections(view, unit, *next, room), next)
}

// ---- signing

/// Returns the ranges that the Authenticode digest of an image covers, in the order of the file, and how many zeros follow.
/// The bytes are those of the whole file.
///
/// Errors: those of `pe_c_image`; `NO_OPTIONAL_HEADER`.
#[unsafe(no_mangle)]
pub extern "C" fn pe_c_digest_ranges(view: &View, out: &mut Digest) -> u32
    ensures { HandsOut result out.old out.new (digest_at view.now.bytes.now view.now.image.now) }
{
    hand_out(digest_at(view), out)
}

/// Returns the checksum that the image should have, and the file offset of its field. What the field holds makes no
/// difference. The bytes are those of the whole file.
///
/// Errors: those of `pe_c_image`; `NO_OPTIONAL_HEADER`.
#[unsafe(no_mangle)]
pub extern "C" fn pe_c_checksum(view: &View, out: &mut ChecksumField) -> u32
    ensures { HandsOut result out.old out.new (checksum_at view.now.bytes.now view.now.image.now) }
{
    hand_out(checksum_at(view), out)
}

/// Attaches a certificate: writes the file with it to the start of `room`, and its length to `written`. The rest of the room is
/// unchanged. Where the room is too small all of it is, and `written` has the length that is needed. The certificate is one or more
/// entries of a certificate table (`WIN_CERTIFICATE`), each but the last with its padding to a multiple of eight bytes. It goes after
/// those that are there if the placement is even, else in their place.
///
/// Errors: those of `pe_c_image`; `NO_OPTIONAL_HEADER`, `SIGN_NO_DIRECTORY`; `CERTIFICATE_TABLE`, `SIGN_TABLE_NOT_LAST`;
/// `SIGN_HEADERS`, `SIGN_SECTION`; `SIGN_TABLE_OFFSET` if the placement is even; `SHORT`, `CERTIFICATE_SIZE` of the
/// certificate; `SIGN_TOO_LARGE`; `ROOM` if the file does not fit into the room. After an error the room is unchanged, and after others
/// than `ROOM` `written` too.
#[unsafe(no_mangle)]
pub extern "C" fn pe_c_attach(
    view: &View,
    certificate: &[u8],
    placement: u32,
    room: &mut [u8],
    written: &mut u64,
) -> u32
    ensures { HandsOutFile result written.old written.new room.old room.new
        (attached_at placement view.now.bytes.now view.now.image.now certificate.now) }
{
    if room.is_empty() {
        return hand_out_length(attached_length(view, certificate, placement), 0, written);
    }
    match attach_to(view, certificate, placement, room) {
        Ok(length) => {
            *written = length as u64;
            DONE
        }
        Err(number) => {
            if number == WRITE_FIT {
                hand_out_length(
                    attached_length(view, certificate, placement),
                    room.len(),
                    written,
                )
            } else {
                number
            }
        }
    }
}

/// Detaches all certificates: writes the file without them to the start of `room`, and its length to `written`. The rest of the
/// room is unchanged. Where the room is too small all of it is, and `written` has the length that is needed. An image without
/// certificates stays as it is, but for its checksum.
///
/// Errors: those of `pe_c_attach` up to `SIGN_SECTION`; `ROOM` if the file does not fit into the room. After an error the room is
/// unchanged, and after others than `ROOM` `written` too.
#[unsafe(no_mangle)]
pub extern "C" fn pe_c_detach(view: &View, room: &mut [u8], written: &mut u64) -> u32
    ensures { HandsOutFile result written.old written.new room.old room.new
        (detached_at view.now.bytes.now view.now.image.now) }
{
    if room.is_empty() {
        return hand_out_length(detached_length(view), 0, written);
    }
    match detach_to(view, room) {
        Ok(length) => {
            *written = length as u64;
            DONE
        }
        Err(number) => {
            if number == WRITE_FIT {
                hand_out_length(detached_length(view), room.len(), written)
            } else {
                number
            }
        }
    }
}

// ---- version

/// Writes a block to the start of `room`, with zeros up to a multiple of four, where the next one starts, and its length with
/// them to `written`. The rest of the room is unchanged. Where the room is too small all of it is, and `written` has the length that is needed.
/// The key is UTF-16 code units, little-endian, without a final zero; a value
/// that is a text has a final zero.
///
/// Errors: `BLOCK_KEY` if the key has an odd number of bytes or a code unit of zero; `BLOCK_TEXT` if the value is a text of an odd
/// number of bytes; `BLOCK_TOO_LONG`; `ROOM` if the block does not fit into the room. After an error the room is unchanged, and after
/// others than `ROOM` `written` too.
#[unsafe(no_mangle)]
pub extern "C" fn pe_c_write_block(
    key: &[u8],
    is_text: u32,
    value: &[u8],
    children: &[u8],
    room: &mut [u8],
    written: &mut u64,
) -> u32
    ensures { HandsOutFile result written.old written.new room.old room.new
        (block_at (block_with key.now is_text value.now children.now)) }
{
    let block = NewBlock {
        key,
        is_text: is_text != 0,
        value,
        children,
    };
    if room.is_empty() {
        return hand_out_length(block_length(&block), 0, written);
    }
    match write_to(&block, room) {
        Ok(length) => {
            *written = length as u64;
            DONE
        }
        Err(number) => {
            if number == WRITE_FIT {
                hand_out_length(block_length(&block), room.len(), written)
            } else {
                number
            }
        }
    }
}

/// Writes version information, the content of a resource of type 16 (`RT_VERSION`), to the start of `room`, and its length to
/// `written`. The rest of the room is unchanged. Where the room is too small all of it is, and `written` has the length that is needed. Names and
/// texts are ranges of `texts`, the strings of a table a range of `strings`.
///
/// Errors: `SHORT` if a range is not inside its array; `BLOCK_TOO_LONG` of the tables by the lengths of names and texts alone, each
/// counted as often as a table has it; of the blocks, each after those that it has, `BLOCK_KEY` if the name of a string has an odd
/// number of bytes or a code unit of zero, `BLOCK_TEXT` if its text has an odd number of bytes, `BLOCK_TOO_LONG`; `ROOM` if it does not fit into the
/// room. After an error the room is unchanged, and after others than `ROOM` `written` too.
#[unsafe(no_mangle)]
pub extern "C" fn pe_c_write_version(
    fixed: &VsFixedFileInfo,
    tables: &[TableRecord],
    strings: &[StringRecord],
    translations: &[LanguageRecord],
    texts: &[u8],
    room: &mut [u8],
    written: &mut u64,
) -> u32
    ensures { HandsOutFile result written.old written.new room.old room.new (version_numbered
        (version_at fixed.now tables.now strings.now translations.now texts.now)) }
{
    let value = VersionRecords {
        fixed,
        tables,
        strings,
        translations,
        texts,
    };
    if room.is_empty() {
        return hand_out_length(version_length(&value), 0, written);
    }
    match version_to(&value, room) {
        Ok(length) => {
            *written = length as u64;
            DONE
        }
        Err(number) => {
            if number == WRITE_FIT {
                hand_out_length(version_length(&value), room.len(), written)
            } else {
                number
            }
        }
    }
}
