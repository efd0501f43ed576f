//! The resources of an image changed: the file of an image with other resources, in its resource section or at its end.
//! Resources are records, with their names and contents as ranges of one array of bytes that the caller passes beside the file.
//! A caller lists the leaves that are there, changes the list, and passes all of it.
//! https://learn.microsoft.com/windows/win32/debug/pe-format#the-rsrc-section

ghost use Rattle.std.specs.Prelude.{◌≡◌};
ghost use Rattle.pe_edit.specs.EditRefusals.{edit_kind_of};
ghost use Rattle.pe_edit.specs.RecordRefusals.{record_kind_of};
ghost use Rattle.pe_rewrite.specs.RewriteRefusals.{rewrite_kind_of};
ghost use Rattle.calls_write.specs.ResourceEdits.{edit_number, edited_at, record_number, records_numbered, rewrite_number};
ghost use Rattle.calls_base.specs.WrittenFiles.{NumberReturns, NumberReturnsWritten, length_numbered, written_numbered};

use crate::signing::headers;
use calls_base::results::number_of;
use calls_base::view::View;
use pe_edit::{EditError, Leaves, RecordError, ResourceRecord, require_records};
use pe_rewrite::{RewriteError, edited_len, write_edited};

/// The number of an error of a resource section. It stays the same from version to version. `tools/make_errors` writes the arms.
fn number_of_edit(error: &EditError) -> u32
    ensures { result ≡ edit_number (edit_kind_of error.now) }
{
    match error {
        EditError::Image(error) => number_of(error),
        EditError::TooMany(_) => 451,
        EditError::Name(_) => 452,
        EditError::Order(_) => 453,
        EditError::TablesTooLarge(_) => 454,
        EditError::TooLarge => 455,
    }
}

/// The number of an error of changed resources. It stays the same from version to version. `tools/make_errors` writes the arms.
fn number_of_rewrite(error: &RewriteError) -> u32
    ensures { result ≡ rewrite_number (rewrite_kind_of error.now) }
{
    match error {
        RewriteError::Image(error) => number_of(error),
        RewriteError::Leaves(error) => number_of_edit(error),
        RewriteError::NoDirectory(_) => 456,
        RewriteError::Signed => 457,
        RewriteError::Headers(_) => 458,
        RewriteError::Alignment(_) => 459,
        RewriteError::NoSection(_) => 460,
        RewriteError::Section(_) => 461,
        RewriteError::SharedSection(_) => 462,
        RewriteError::Symbols(_) => 463,
        RewriteError::Overlap(_) => 464,
        RewriteError::NoRoom { .. } => 465,
        RewriteError::NoHeaderRoom(_) => 471,
        RewriteError::ImageTooLarge => 472,
        RewriteError::DebugData(_) => 473,
    }
}

/// The number of an error of records. It stays the same from version to version. `tools/make_errors` writes the arms.
fn number_of_record(error: &RecordError) -> u32
    ensures { result ≡ record_number (record_kind_of error.now) }
{
    match error {
        RecordError::Record(_) => 466,
        RecordError::Names => 467,
        RecordError::Contents => 474,
    }
}

/// Tests the records: the number of an error if they are no list of resources.
fn tested(resources: &[ResourceRecord], data: &[u8]) -> Result<(), u32>
    ensures { NumberReturns (λ u. u) result (records_numbered data.now resources.now) }
{
    match require_records(resources, data) {
        Ok(()) => Ok(()),
        Err(error) => Err(number_of_record(&error)),
    }
}

/// The length of the file with these resources.
pub fn edited_length(view: &View, resources: &[ResourceRecord], data: &[u8]) -> Result<u64, u32>
    ensures { NumberReturns (λ n. n) result
        (length_numbered (edited_at view.now.bytes.now view.now.image.now data.now resources.now)) }
{
    let header = headers(view)?;
    tested(resources, data)?;
    match edited_len(view.bytes, &header, &Leaves::Records(resources, data)) {
        Ok(length) => Ok(length as u64),
        Err(error) => Err(number_of_rewrite(&error)),
    }
}

pub fn edit_to(
    view: &View,
    resources: &[ResourceRecord],
    data: &[u8],
    room: &mut [u8],
) -> Result<usize, u32>
    ensures { NumberReturnsWritten result
        (written_numbered (edited_at view.now.bytes.now view.now.image.now data.now resources.now)
        room.old)
        room.old room.new }
{
    let header = headers(view)?;
    tested(resources, data)?;
    match write_edited(view.bytes, &header, &Leaves::Records(resources, data), room) {
        Ok(length) => Ok(length),
        Err(error) => Err(number_of_rewrite(&error)),
    }
}
