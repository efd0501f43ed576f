//! Calls on results, texts and indexes of sections, over calls_base.

ghost use Rattle.calls_base.specs.EndedTexts.{PutsText, guid_text, hyphenated, text_in, truncated_text, unhyphenated, utf16_text_at};
ghost use Rattle.calls_base.specs.HandsOut.{HandsOut};
ghost use Rattle.calls_base.specs.SectionIndexes.{MakesIndex, is_searched};
ghost use Rattle.calls_base.specs.Texts.{result_text};
ghost use Rattle.std.specs.Prelude.{length, ◌*◌, ◌+◌, ◌/◌, ◌<◌, ◌==◌, ◌≡◌};

use calls_base::ended_texts::{
    SIZE_OF_GUID, TextInBytes, hyphenated, put_ended, put_text, put_truncated, text_in,
    unhyphenated,
};
use calls_base::ranges::{Range, slice_of};
use calls_base::results::{DONE, ROOM, hand_out, number_of};
use calls_base::section_index::is_searched;
use calls_base::texts::text_of;
use calls_base::view::View;
use pe_core::{Error, RangeEntry, put_section_index};

// ---- ended texts

/// Writes the text of a GUID, the first 16 of some bytes, to the start of `room`, with a zero after it, and its length to
/// `written`: by `form` 0 with hyphens, 36 characters, by any other number without them, 32, as symbol servers have it. Letters
/// are in upper case. What follows in the room is unchanged.
///
/// Errors: `SHORT` where there are fewer than 16 bytes; `ROOM` where the room has no more bytes than the text, and then `written`
/// is how many it has to have.
#[unsafe(no_mangle)]
pub extern "C" fn pe_c_guid_text(guid: &[u8], form: u32, room: &mut [u8], written: &mut u64) -> u32
    ensures { PutsText result room.old room.new written.old written.new (guid_text guid.now form) }
{
    if guid.len() < SIZE_OF_GUID {
        return number_of(&Error::Short {
            // Callers get the error's number alone.
            at: 0,
            needed: SIZE_OF_GUID,
        });
    }
    if form == 0 {
        put_ended(&hyphenated(guid), room, written)
    } else {
        put_ended(&unhyphenated(guid), room, written)
    }
}

/// Writes the text of a range in UTF-16, little-endian, as UTF-8 to the start of `room`, with a zero after it, and its length to
/// `written`. U+FFFD stands for a surrogate without a partner; zeros in the text are characters; an odd byte at the end is left
/// out. What follows in the room is unchanged.
///
/// Errors: `SHORT` where the range is not inside the bytes; `ROOM` where the room has no more bytes than the text, and then
/// `written` is how many it has to have.
#[unsafe(no_mangle)]
pub extern "C" fn pe_c_utf16_text(
    bytes: &[u8],
    range: &Range,
    room: &mut [u8],
    written: &mut u64,
) -> u32
    ensures { PutsText result room.old room.new written.old written.new
        (utf16_text_at bytes.now range.now) }
{
    match slice_of(bytes, range) {
        Ok(text) => put_text(text, room, written),
        Err(error) => number_of(&error),
    }
}

/// Returns the text in a range up to its first zero, and whether a zero follows it, in the range or right after it: then
/// `bytes + text.offset` is a string of C, as that of a name which a call returned.
///
/// Error: `SHORT` where the range is not inside the bytes.
#[unsafe(no_mangle)]
pub extern "C" fn pe_c_text_in(bytes: &[u8], range: &Range, out: &mut TextInBytes) -> u32
    ensures { HandsOut result out.old out.new (text_in bytes.now range.now) }
{
    hand_out(text_in(bytes, range), out)
}

// ---- results

/// Returns the number of this ABI, which its name has too. The header and the cargo crate refer to that name, so that a
/// program that was compiled for another ABI does not link. The number grows with each change that breaks callers.
#[unsafe(no_mangle)]
pub extern "C" fn pe_c_abi_5() -> u32
    ensures { result ≡ 5 }
{
    5
}

// ---- section index

/// Makes an index of the sections of a view at the start of `room`, and writes to `written` how many entries it has: two for each
/// section. A view with these entries maps RVAs as one without them, in a number of steps that grows with the logarithm of the
/// number of sections. The room has to have twice as many entries; what is in the second half of them is left open, and what follows
/// is unchanged. No entries where no section is searched: in an image as loaded, and where the file alignment is not a power of
/// two. An index in the view that is passed makes no difference.
///
/// Errors: `ROOM`; then `written` is how many entries the room has to have.
#[unsafe(no_mangle)]
pub extern "C" fn pe_c_index(view: &View, room: &mut [RangeEntry], written: &mut u64) -> u32
    ensures { MakesIndex view.now.image.now view.now.sections.now result room.old room.new written.new }
{
    if !is_searched(view.image) {
        *written = 0;
        return DONE;
    }
    match put_section_index(view.sections, view.image.file_alignment, room) {
        Ok(count) => {
            *written = count as u64;
            DONE
        }
        Err(needed) => {
            *written = needed as u64;
            ROOM
        }
    }
}

// ---- texts

/// Writes the text of a result to the start of `room`, in UTF-8, with a zero after it; where the room is too small as much of it
/// as there is room for before the zero. Returns the length of the whole text in bytes.
#[unsafe(no_mangle)]
pub extern "C" fn pe_c_text(number: u32, room: &mut [u8]) -> usize
    ensures whole { result ≡ length (result_text number) }
    ensures put { room.new ≡ truncated_text room.old (result_text number) }
{
    let text = text_of(number).as_bytes();
    put_truncated(text, room);
    text.len()
}
