//! The attribute certificate table: records of a header of 8 bytes and a body (`WIN_CERTIFICATE`), each at a multiple
//! of eight if the table starts at one. Its directory has a file offset, not an RVA. A caller lists the table, and
//! writes certificates into an image. See [the PE format](https://learn.microsoft.com/windows/win32/debug/pe-format).

ghost use Rattle.std.specs.Prelude.{◌≡◌, ◌+◌, ◌-◌, ◌<◌, ◌≤◌, ◌^◌, [], ◌∷◌, ◌++◌, length, map, replicate};
ghost use Rattle.pe_core.specs.Bytes.{holds, put};
ghost use Rattle.pe_core.specs.Refusals.{WriteFit, outcome, ReturnsAs, ReturnsUnlessMemory};
ghost use Rattle.pe_core.specs.SectionMap.{rounded_up};
ghost use Rattle.pe_records.specs.Certificates.{FindsRevision, FindsType, Lists, certificate_view, certificates_at};

use pe_core::{
    Error, Reason, Result, data_at, read_u16, read_u32, require_bytes, require_room, rounded_up,
};
use std::alloc::{Allocator, Global};

/// Certificates are rounded up to a multiple of this many bytes.
const UNIT: usize = 8;

/// The revision of a certificate. `as u16` is its number in the file.
#[derive(Clone, Copy, Debug, PartialEq)]
pub enum AttributeCertificateRevision {
    /// An old certificate (`WIN_CERT_REVISION_1_0`).
    Revision1_0 = 0x0100,
    /// A current certificate (`WIN_CERT_REVISION_2_0`).
    Revision2_0 = 0x0200,
}

/// The type of a certificate: what its body contains. `as u16` is its number in the file.
#[derive(Clone, Copy, Debug, PartialEq)]
pub enum AttributeCertificateType {
    /// An X.509 certificate (`WIN_CERT_TYPE_X509`).
    X509 = 1,
    /// PKCS #7 signed data (`WIN_CERT_TYPE_PKCS_SIGNED_DATA`).
    PkcsSignedData = 2,
    /// Reserved (`WIN_CERT_TYPE_RESERVED_1`).
    Reserved1 = 3,
    /// A certificate of a terminal server's protocol stack (`WIN_CERT_TYPE_TS_STACK_SIGNED`).
    TsStackSigned = 4,
}

impl TryFrom<u16> for AttributeCertificateRevision {
    type Error = Error;

    ghost try_from_gives = { FindsRevision };

    fn try_from(number: u16) -> Result<AttributeCertificateRevision> {
        match number {
            0x0100 => Ok(AttributeCertificateRevision::Revision1_0),
            0x0200 => Ok(AttributeCertificateRevision::Revision2_0),
            _ => Err(Error::Malformed(Reason::CertificateRevision(number))),
        }
    }
}

impl TryFrom<u16> for AttributeCertificateType {
    type Error = Error;

    ghost try_from_gives = { FindsType };

    fn try_from(number: u16) -> Result<AttributeCertificateType> {
        match number {
            1 => Ok(AttributeCertificateType::X509),
            2 => Ok(AttributeCertificateType::PkcsSignedData),
            3 => Ok(AttributeCertificateType::Reserved1),
            4 => Ok(AttributeCertificateType::TsStackSigned),
            _ => Err(Error::Malformed(Reason::CertificateType(number))),
        }
    }
}

/// An attribute certificate. It borrows its body from the file.
#[derive(Debug, Drop)]
pub struct AttributeCertificate<'a> {
    /// The size of header and body in bytes, as the header has it. In a certificate that a caller builds it may differ
    /// from the size of the body.
    pub length: u32,
    /// The revision of the certificate.
    pub revision: AttributeCertificateRevision,
    /// What the body contains.
    pub certificate_type: AttributeCertificateType,
    /// The body, without the header and the padding.
    pub certificate: &'a [u8],
}

/// The certificates of a table, in file order.
pub type CertificateDirectoryTable<'a, A = Global> = Vec<AttributeCertificate<'a>, A>;

impl<'a> AttributeCertificate<'a> {
    ghost use Rattle.pe_records.specs.Certificates.{Parses};

    /// Parses the certificate at the file offset `offset`, and moves the offset after it, rounded up to a multiple of
    /// eight. A length below 8 means an empty body.
    ///
    /// Errors, in this order: `Short` if the header of 8 bytes is truncated; `CertificateSize` if the body passes the
    /// end of the file; `CertificateRevision`; `CertificateType`. After `Short` the offset is unchanged, after any
    /// other error it is after the header.
    #[tactic(auto, unfolding(crate::specs::Certificates::certificate_at, crate::specs::Certificates::certificate_tests, crate::specs::Certificates::certificate))]
    pub fn parse(bytes: &'a [u8], offset: &mut usize) -> Result<AttributeCertificate<'a>>
        ensures { Parses bytes.entry.now offset.old result offset.new }
    {
        let start = *offset;
        require_bytes(bytes, start, 8)?;
        let length = read_u32(bytes, start);
        let revision = read_u16(bytes, start + 4);
        let certificate_type = read_u16(bytes, start + 6);
        *offset = start + 8;
        let body = length.saturating_sub(8) as usize;
        let certificate = data_at(bytes, start + 8, body, Reason::CertificateSize(length))?;
        let revision = AttributeCertificateRevision::try_from(revision)?;
        let certificate_type = AttributeCertificateType::try_from(certificate_type)?;
        *offset = rounded_up(start + 8 + body, UNIT);
        Ok(AttributeCertificate {
            length,
            revision,
            certificate_type,
            certificate,
        })
    }
}

ghost use Rattle.pe_records.specs.CertificateWriting.{spell_certificate, written_certificate, written_end};

/// Fills the whole piece with header, body and zeros.
fn fill_piece(piece: &mut [u8], header: [u8; 8], body: &[u8])
    requires { 8 + length body.now ≤ length piece.old }
    ensures { piece.new ≡ header ++ body.now ++ replicate
        (length piece.old - (8 + length body.now)) 0 }
{
    let end = 8 + body.len();
    piece[..8].copy_from_slice(&header);
    piece[8..end].copy_from_slice(body);
    piece[end..].fill(0);
}

impl<'a> AttributeCertificate<'a> {
    /// The header's eight bytes.
    #[tactic(auto, unfolding(crate::specs::CertificateWriting::spell_certificate, pe_core::specs::Bytes::bytes_of))]
    fn header(&self) -> [u8; 8]
        ensures { result ≡ spell_certificate (certificate_view self.now) }
    {
        let length = self.length.to_le_bytes();
        let revision = (self.revision as u16).to_le_bytes();
        let certificate_type = (self.certificate_type as u16).to_le_bytes();
        [
            length[0],
            length[1],
            length[2],
            length[3],
            revision[0],
            revision[1],
            certificate_type[0],
            certificate_type[1],
        ]
    }

    /// Writes the header with `length` as it stands, the body, and zeros up to a multiple of eight bytes counted from
    /// the `offset`. Returns the offset after them. Errors: `WriteFit` if they do not fit in `out`; then nothing
    /// is changed.
    #[tactic(auto, using(crate::proofs::CertificatePieces::length_written), unfolding(pe_core::specs::Bytes::splice))]
    pub fn write_into(&self, out: &mut [u8], offset: usize) -> Result<usize>
        ensures fit { ReturnsAs
            (λ end. end) result (written_end out.old offset (certificate_view self.now)) }
        ensures after { out.new ≡ put out.old offset
            (written_certificate (certificate_view self.now)) }
    {
        let size = rounded_up(8 + self.certificate.len(), UNIT);
        require_room(out, offset, size)?;
        let end = offset + size;
        let header = self.header();
        fill_piece(&mut out[offset..end], header, self.certificate);
        Ok(end)
    }
}

/// The certificates of the table, one after the other.
#[tactic(auto, using(crate::proofs::CertificateListings::next_above, crate::proofs::CertificateListings::listing, crate::proofs::CertificateListings::refused, crate::proofs::CertificateListings::begun, crate::proofs::CertificateListings::never_memory))]
fn certificates_of_table<'a, A: Allocator>(
    alloc: A,
    bytes: &'a [u8],
    address: usize,
    size: usize,
) -> Result<CertificateDirectoryTable<'a, A>>
    ensures { Lists bytes.entry.now address size result }
{
    if bytes.len() < size || bytes.len() - size < address {
        // The sum of offset and size may pass a `usize`; the error reports it up to the greatest `u64`.
        let end = (address as u64).saturating_add(size as u64);
        return Err(Error::Malformed(Reason::CertificateTable(end)));
    }
    let end = address + size;
    let mut certificates = Vec::new(alloc);
    let mut offset = address;
    while offset < end {
        let certificate = AttributeCertificate::parse(bytes, &mut offset)?;
        certificates.push(certificate)?;
    }
    Ok(certificates)
}

/// Lists the certificates of a table, in file order. `address` is the table's file offset and `size` its size in
/// bytes, as the certificate directory has them. The last body may pass the end of the table.
///
/// Errors, in this order: `CertificateTable` if the table passes the end of the file; then those of the first
/// certificate that is invalid, as `AttributeCertificate::parse` returns them. Memory is allocated only once the table
/// is known to lie in the file and its first certificate is read; `Memory` is returned if an allocation fails.
pub fn enumerate_certificates<'a, A: Allocator>(
    alloc: A,
    bytes: &'a [u8],
    address: usize,
    size: usize,
) -> Result<CertificateDirectoryTable<'a, A>>
    ensures listing { Lists bytes.entry.now address size result }
    ensures value { ReturnsUnlessMemory (λ certificates. map certificate_view certificates.items)
        result (certificates_at bytes.entry.now address size) }
{
    certificates_of_table(alloc, bytes, address, size)
}
