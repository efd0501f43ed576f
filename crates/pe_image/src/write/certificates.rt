//! Writes the attribute certificate table: certificates one after the other, from the offset in the certificate
//! directory on, each padded with zeros to a multiple of 8 bytes. Layout:
//! <https://learn.microsoft.com/windows/win32/debug/pe-format>, attribute certificate table.

ghost use Rattle.std.specs.Prelude.{◌≡◌, ◌+◌, [], ◌∷◌, IsTrue, length};
ghost use Rattle.pe_core.specs.Refusals.{Returns, WriteFit, outcome};
ghost use Rattle.pe_records.specs.Certificates.{certificate_view};
ghost use Rattle.pe_records.specs.CertificateWriting.{written_length};
ghost use Rattle.pe_image.specs.CertificateLists.{certificate_views};
ghost use Rattle.pe_image.specs.Overlay.{all_fit};
ghost use Rattle.pe_image.specs.Pieces.{all_certificate_pieces, certificate_pieces, certificates_end, in_a_row, row_end};
ghost use Rattle.pe_image.specs.Writing.{ReturnsWritten, certificates_over};
ghost use Rattle.pe_image.specs.WritingSteps.{possible, put_in_turn};

use crate::write::certificate_list::CertificateList;
use crate::write::ends::piece_end;
use pe_core::{DataDirectory, Result, require_room, rounded_up};
use pe_records::AttributeCertificate;

/// The alignment of certificates in bytes: a written one is padded to a multiple of it.
const UNIT: usize = 8;

/// The offset after a certificate that is written at `offset`. `WriteFit` if no buffer is so long.
fn certificate_end(offset: usize, certificate: &AttributeCertificate<'_>) -> Result<usize>
    ensures { Returns result (possible
        (offset + written_length (certificate_view certificate.now))
        (offset + written_length (certificate_view certificate.now))) }
{
    piece_end(offset, rounded_up(8 + certificate.certificate.len(), UNIT))
}

/// The offset after certificates that are written one after the other from `start` on. `WriteFit` if no buffer is so
/// long.
fn row_end(start: u32, certificates: &CertificateList<'_>) -> Result<usize>
    ensures { Returns result (possible
        (row_end written_length start (certificate_views certificates.now))
        (row_end written_length start (certificate_views certificates.now))) }
{
    let mut offset = start as usize;
    let mut left = *certificates;
    while let Some((certificate, rest)) = left.first() {
        offset = certificate_end(offset, &certificate)?;
        left = rest;
    }
    Ok(offset)
}

/// Writes a certificate, and returns the offset after it. The caller has checked that it fits.
#[tactic(auto, using(crate::proofs::WrittenCertificates::put_in_three))]
fn set_certificate(
    buffer: &mut [u8],
    offset: usize,
    certificate: &AttributeCertificate<'_>,
) -> usize
    requires { IsTrue (all_fit (length buffer.old)
        (certificate_pieces offset (certificate_view certificate.now))) }
    ensures after { buffer.new ≡ put_in_turn buffer.old
        (certificate_pieces offset (certificate_view certificate.now)) }
    ensures end { result ≡ offset + written_length (certificate_view certificate.now) }
{
    match certificate.write_into(buffer, offset) {
        Ok(end) => end,
        // Never taken: the certificate fits.
        Err(_) => offset,
    }
}

/// Writes certificates one after the other. The caller has checked that they fit.
fn set_certificates(buffer: &mut [u8], start: usize, certificates: &CertificateList<'_>)
    requires { IsTrue (all_fit (length buffer.old) (in_a_row certificate_pieces written_length start
        (certificate_views certificates.now))) }
    ensures { buffer.new ≡ put_in_turn buffer.old
        (in_a_row certificate_pieces written_length start (certificate_views certificates.now)) }
{
    let mut offset = start;
    let mut left = *certificates;
    while let Some((certificate, rest)) = left.first() {
        offset = set_certificate(buffer, offset, &certificate);
        left = rest;
    }
}

/// The end of the certificates that are written from the offset of the directory on, 0 if none is written. `WriteFit`
/// if no buffer is so long.
pub fn certificates_end(
    directory: Option<DataDirectory>,
    certificates: &CertificateList<'_>,
) -> Result<usize>
    ensures { Returns result (possible
        (certificates_end directory (certificate_views certificates.now))
        (certificates_end directory (certificate_views certificates.now))) }
{
    match directory {
        None => Ok(0),
        Some(_) if certificates.is_empty() => Ok(0),
        Some(directory) => row_end(directory.virtual_address, certificates),
    }
}

/// The end of the certificates that are written from the offset of the directory on, 0 if none is written. `WriteFit`
/// if they don't all fit.
#[tactic(auto, using(crate::proofs::Ends::fit_by_end, crate::proofs::Ends::certificates_reach))]
fn require_table(
    buffer: &[u8],
    directory: Option<DataDirectory>,
    certificates: &CertificateList<'_>,
) -> Result<usize>
    ensures { Returns result (outcome ((
      all_fit (length buffer.now)
          (all_certificate_pieces directory (certificate_views certificates.now)),
      WriteFit,
    ) ∷ [])
        (certificates_end directory (certificate_views certificates.now))) }
{
    let end = certificates_end(directory, certificates)?;
    require_room(buffer, 0, end)?;
    Ok(end)
}

/// Writes the certificates from the offset of the directory on, none without a directory. The caller has checked that
/// they fit.
#[tactic(auto, unfolding(crate::specs::WritingSteps::put_in_turn))]
pub fn set_table(
    buffer: &mut [u8],
    directory: Option<DataDirectory>,
    certificates: &CertificateList<'_>,
)
    requires { IsTrue (all_fit (length buffer.old)
        (all_certificate_pieces directory (certificate_views certificates.now))) }
    ensures { buffer.new ≡ put_in_turn buffer.old
        (all_certificate_pieces directory (certificate_views certificates.now)) }
{
    if let Some(directory) = directory {
        set_certificates(buffer, directory.virtual_address as usize, certificates);
    }
}

/// Writes the certificates from the offset of the directory on, and returns where they end. `WriteFit` if they don't
/// all fit; the buffer is then unchanged.
pub fn write_table(
    buffer: &mut [u8],
    directory: Option<DataDirectory>,
    certificates: &CertificateList<'_>,
) -> Result<usize>
    ensures { ReturnsWritten result (certificates_over directory
        (certificate_views certificates.now) buffer.old) buffer.old buffer.new }
{
    let end = require_table(buffer, directory, certificates)?;
    set_table(buffer, directory, certificates);
    Ok(end)
}
