//! Images written: headers, sections and certificates, by themselves or over the whole file. The sections are those that are
//! passed, as `pe_c_sections` returned them or changed. Headers and certificates are read from the bytes, in the mode of the
//! image that is passed: a caller that wants another header changes it in the bytes.
//! https://learn.microsoft.com/windows/win32/debug/pe-format#overview

ghost use Rattle.std.specs.Prelude.{IfOk, ◌≡◌};
ghost use Rattle.pe_core.specs.Header.{header_view};
ghost use Rattle.pe_core.specs.Refusals.{ReturnsAs, answer_of};
ghost use Rattle.pe_image.specs.CertificateLists.{certificate_views};
ghost use Rattle.pe_image.specs.Writing.{ReturnsWritten};
ghost use Rattle.calls_write.specs.ImageWrites.{certificates_of, certificates_written_at, image_length_at, image_written_at, whole_length_at, whole_written_at, sections_written_at, unit_of};

use crate::signing::headers_of;
use calls_base::results::options;
use calls_base::view::View;
use pe_core::{Header, Result};
use pe_image::{CertificateList, ImageWriter, SectionWriter};

/// The writer of an image with these headers: of the bytes and sections of a view, and of the certificates in its mode.
fn writer_of<'a>(view: &View<'a>, header: &'a Header<'a>) -> Result<ImageWriter<'a>>
    ensures certificates { ReturnsAs (λ writer. certificate_views writer.certificates) result
        (certificates_of view.now (header_view header.entry.now)) }
    ensures parts { IfOk result (λ writer. (writer.source.now ≡ view.now.bytes.now)
        × (writer.header.now ≡ header.entry.now) × (writer.sections.now ≡ view.now.sections.now)) }
{
    Ok(ImageWriter {
        source: view.bytes,
        header,
        sections: view.sections,
        certificates: CertificateList::of_image(view.bytes, header, &options(view.image.mode))?,
    })
}

pub fn write_certificates(view: &View, room: &mut [u8]) -> Result<u64>
    ensures { ReturnsWritten result
        (certificates_written_at view.now room.old) room.old room.new }
{
    let header = headers_of(view)?;
    Ok(writer_of(view, &header)?.write_certificates(room)? as u64)
}

/// How many bytes of a room the image needs: the greatest end of what is written.
pub fn image_length(view: &View) -> Result<u64>
    ensures { answer_of result ≡ image_length_at view.now }
{
    let header = headers_of(view)?;
    Ok(writer_of(view, &header)?.written_len()? as u64)
}

pub fn write_image(view: &View, room: &mut [u8]) -> Result<u64>
    ensures { ReturnsWritten result (image_written_at view.now room.old) room.old room.new }
{
    let header = headers_of(view)?;
    Ok(writer_of(view, &header)?.write_into(room)? as u64)
}

/// How many bytes of a room the whole file needs.
pub fn whole_length(view: &View) -> Result<u64>
    ensures { answer_of result ≡ whole_length_at view.now }
{
    let header = headers_of(view)?;
    Ok(writer_of(view, &header)?.whole_len()? as u64)
}

pub fn write_whole(view: &View, room: &mut [u8]) -> Result<u64>
    ensures { ReturnsWritten result (whole_written_at view.now room.old) room.old room.new }
{
    let header = headers_of(view)?;
    Ok(writer_of(view, &header)?.write_whole(room)? as u64)
}

/// The unit of a number. `None` for 0.
fn unit_of(number: u32) -> Option<usize>
    ensures { result ≡ unit_of number }
{
    if number == 0 {
        None
    } else {
        Some(number as usize)
    }
}

pub fn write_sections(view: &View, unit: u32, offset: u64, room: &mut [u8]) -> Result<u64>
    ensures { ReturnsWritten result
        (sections_written_at view.now unit offset room.old) room.old room.new }
{
    let writer = SectionWriter {
        source: view.bytes,
        sections: view.sections,
        unit: unit_of(unit),
    };
    let end = writer.write(room, offset as usize)?;
    Ok(end as u64)
}
