//! The `certificate` lines of `list`: the length of each attribute certificate with its header in decimal, and its
//! revision and type in hexadecimal.
//! https://learn.microsoft.com/windows/win32/debug/pe-format#the-attribute-certificate-table-image-only

ghost use Rattle.std.specs.Prelude.{◌≡◌, ◌++◌, map, OnOk};
ghost use Rattle.pe_records.specs.Certificates.{certificate_view};
ghost use Rattle.peinfo.specs.CertificateLines.{certificate_line_end, certificate_text, certificate_line, certificate_lines};

use crate::digits::{hex4_digits, push_decimal};
use pe_image::AttributeCertificate;
use std::alloc::{AllocError, Allocator};

/// The end of a line, from after the length on.
#[tactic(auto, unfolding(crate::specs::CertificateLines::certificate_line_end, crate::specs::Hex::hex))]
fn line_end(revision: u16, certificate_type: u16) -> [u8; 11]
    ensures { result ≡ certificate_line_end revision certificate_type }
{
    let mut line = *b" 0000 0000\n";
    line[1..5].copy_from_slice(&hex4_digits(revision));
    line[6..10].copy_from_slice(&hex4_digits(certificate_type));
    line
}

#[tactic(auto, unfolding(crate::specs::CertificateLines::certificate_text))]
fn push_numbers<A: Allocator>(
    text: &mut Vec<u8, A>,
    length: u32,
    revision: u16,
    certificate_type: u16,
) -> Result<(), AllocError>
    ensures { OnOk result
        (text.new.items ≡ text.old.items ++ certificate_text length revision certificate_type) }
{
    text.extend_from_slice(b"certificate ")?;
    push_decimal(text, length)?;
    text.extend_from_slice(&line_end(revision, certificate_type))
}

#[tactic(auto, unfolding(crate::specs::CertificateLines::certificate_line))]
fn push_line<A: Allocator>(
    text: &mut Vec<u8, A>,
    certificate: &AttributeCertificate<'_>,
) -> Result<(), AllocError>
    ensures { OnOk result
        (text.new.items ≡ text.old.items ++ certificate_line (certificate_view certificate.now)) }
{
    let revision = certificate.revision as u16;
    let certificate_type = certificate.certificate_type as u16;
    push_numbers(text, certificate.length, revision, certificate_type)
}

/// Adds a line for each certificate.
#[tactic(auto, using(std::proofs::lemmas::Grind::common_steps))]
pub fn push_lines<A: Allocator>(
    text: &mut Vec<u8, A>,
    certificates: &[AttributeCertificate<'_>],
) -> Result<(), AllocError>
    ensures { OnOk result (text.new.items ≡ text.old.items ++ certificate_lines
        (map certificate_view certificates.now)) }
{
    for certificate in certificates {
        push_line(text, certificate)?;
    }
    Ok(())
}
