//! Attribute certificates, which hold Authenticode signatures. Their table has one after the other: a header of 8
//! bytes, then the body, aligned to 8 bytes. The table is not mapped: its directory has a file offset. A caller starts
//! a walk as the range of the directory.
//! https://learn.microsoft.com/windows/win32/debug/pe-format#the-attribute-certificate-table-image-only

ghost use Rattle.std.specs.Prelude.{◌≡◌, ◌+◌, ◌≤◌, ◌^◌};
ghost use Rattle.pe_core.specs.Refusals.{answer_of};
ghost use Rattle.pe_records.specs.Certificates.{certificate_view};
ghost use Rattle.calls_directories.specs.Certificates.{certificate_step, certificate_reported, walk_from};

use calls_base::ranges::{NO_BYTES, Range, slice_of};
use pe_core::{Error, Reason, Result};
use pe_records::AttributeCertificate;

/// A certificate (`WIN_CERTIFICATE`).
#[repr(C)]
#[derive(Clone, Copy)]
pub struct Certificate {
    /// What follows the header of 8 bytes.
    pub body: Range,
    /// Bytes of header and body, as the header says.
    pub length: u32,
    /// `WIN_CERT_REVISION_1_0` (0x100) or `WIN_CERT_REVISION_2_0` (0x200).
    pub revision: u16,
    /// 1 for an X.509 certificate, 2 for PKCS #7 signed data, 3 reserved, 4 for a terminal server's certificate.
    pub certificate_type: u16,
}

/// The certificate at a file offset, as numbers and a range.
fn certificate_reported(offset: u64, certificate: &AttributeCertificate) -> Certificate
    requires { offset ≤ 2 ^ 63 }
    ensures { result ≡ certificate_reported offset (certificate_view certificate.now) }
{
    Certificate {
        body: Range {
            offset: offset + 8,
            length: certificate.certificate.len() as u64,
        },
        length: certificate.length,
        revision: certificate.revision as u16,
        certificate_type: certificate.certificate_type as u16,
    }
}

/// The walk that continues at a file offset: it is over where the offset is not before the walk's end.
fn walk_from(walk: Range, next: u64) -> Range
    requires { walk.offset + walk.length ≤ 2 ^ 63 }
    ensures { result ≡ walk_from walk next }
{
    let end = walk.offset + walk.length;
    if next < end {
        Range {
            offset: next,
            length: end - next,
        }
    } else {
        NO_BYTES
    }
}

/// One step: its result, and the walk after it.
#[tactic(auto, unfolding(crate::specs::Certificates::certificate_step))]
pub fn step(bytes: &[u8], walk: Range) -> (Result<Option<Certificate>>, Range)
    ensures { (answer_of result.0, result.1) ≡ certificate_step bytes.now walk }
{
    // This test comes first: an empty walk outside of the bytes is an error too.
    if slice_of(bytes, &walk).is_err() {
        let end = walk.offset.saturating_add(walk.length);
        return (
            Err(Error::Malformed(Reason::CertificateTable(end))),
            NO_BYTES,
        );
    }
    if walk.length == 0 {
        return (Ok(None), walk);
    }
    let mut offset = walk.offset as usize;
    match AttributeCertificate::parse(bytes, &mut offset) {
        Ok(certificate) => {
            let reported = certificate_reported(walk.offset, &certificate);
            (Ok(Some(reported)), walk_from(walk, offset as u64))
        }
        Err(error) => (Err(error), NO_BYTES),
    }
}
