//! Certificates attached to an image, and detached from it. The certificate table is the end of the file. An entry of
//! the data directories has its file offset and its size; each certificate in it starts at a multiple of eight bytes
//! ([layout](https://learn.microsoft.com/windows/win32/debug/pe-format#the-attribute-certificate-table-image-only)).
//!
//! A signing tool hashes the image, makes a certificate of it, and attaches that. The digest of the image stays as it
//! was, so the signature in the certificate is valid for what was written.

ghost use Rattle.std.specs.Prelude.{◌≡◌, ◌+◌, ◌≤◌, ◌^◌, ◌++◌, [], ◌∷◌, IfOk, Ok, length, drop, take, nat_lt};
ghost use Rattle.pe_core.specs.Header.{header_view};
ghost use Rattle.pe_core.specs.SectionMap.{rounded_up};
ghost use Rattle.pe_core.specs.Refusals.{outcome};
ghost use Rattle.pe_sign.specs.SignRefusals.{TooLarge, SignReturns};
ghost use Rattle.pe_sign.specs.Attaching.{kept_length, unsigned_length, table_start, attached_file, attached_of, detached_file, detached_of, length_of, written, SignReturnsWritten};
ghost use Rattle.pe_sign.specs.AttachingSteps.{Fits, FitsWith, size_tests, certified_of};

use crate::checks::{image, is_signed, unsigned_length};
use crate::digest::LeftOut;
use crate::error::SignError;
use crate::put::{UNIT, set_fields, set_joined};
use pe_core::{
    DataDirectory, Error, Header, Reason, read_u32, require_bytes, require_room, rounded_up,
    set_slice,
};

/// The size of the header of a certificate in bytes.
const SIZE_OF_CERTIFICATE_HEADER: usize = 8;

/// Offsets and sizes in a header are below this.
const LIMIT: usize = 0x1_0000_0000;

/// An entry of zeros: the image has no certificates.
const ABSENT: DataDirectory = DataDirectory {
    virtual_address: 0,
    size: 0,
};

/// Where a certificate is attached.
#[derive(Clone, Copy)]
pub enum Placement {
    /// After the certificates that are there.
    After,
    /// In place of the certificates that are there.
    InPlace,
}

/// How many bytes of a file of this length stay.
fn kept_length(placement: Placement, left_out: &LeftOut, length: usize) -> usize
    ensures { result ≡ kept_length placement left_out.now length }
{
    match placement {
        Placement::After => length,
        Placement::InPlace => unsigned_length(left_out, length),
    }
}

/// Where the certificate table starts afterwards.
fn table_start(placement: Placement, left_out: &LeftOut, length: usize) -> usize
    requires { kept_length placement left_out.now length + 8 ≤ 2 ^ 64 }
    ensures { result ≡ table_start placement left_out.now length }
{
    if placement == Placement::After && is_signed(left_out) {
        left_out.certificates.offset
    } else {
        rounded_up(kept_length(placement, left_out, length), UNIT)
    }
}

/// The file's length after a certificate of `size` bytes is attached to `kept` bytes. `TooLarge` if it is 2^32 or more.
fn joined_length(kept: usize, size: usize) -> Result<usize, SignError>
    ensures { SignReturns result
        (outcome ((nat_lt (rounded_up kept 8 + rounded_up size 8) 4294967296, TooLarge) ∷ [])
        (rounded_up kept 8 + rounded_up size 8)) }
{
    if kept >= LIMIT || size >= LIMIT {
        return Err(SignError::TooLarge);
    }
    let length = rounded_up(kept, UNIT) + rounded_up(size, UNIT);
    if length >= LIMIT {
        return Err(SignError::TooLarge);
    }
    Ok(length)
}

/// Errors, in order: `Image` with `Short` if the certificate has fewer than eight bytes; `Image` with `CertificateSize`
/// if it has fewer than its header says.
fn require_certificate(certificate: &[u8]) -> Result<(), SignError>
    ensures { SignReturns result (outcome (size_tests certificate.now) tt) }
{
    require_bytes(certificate, 0, SIZE_OF_CERTIFICATE_HEADER)?;
    let length = read_u32(certificate, 0);
    if length as usize > certificate.len() {
        return Err(SignError::Image(Error::Malformed(Reason::CertificateSize(length))));
    }
    Ok(())
}

/// The parts of the image that its digest leaves out, if the certificate can be attached.
fn certified(
    bytes: &[u8],
    header: &Header<'_>,
    certificate: &[u8],
    placement: Placement,
) -> Result<LeftOut, SignError>
    ensures parts { SignReturns result
        (certified_of placement bytes.now (header_view header.now) certificate.now) }
    ensures fits { IfOk result
        (λ l. FitsWith placement l (length bytes.now) (length certificate.now)) }
{
    let left_out = image(bytes, header)?;
    let offset = left_out.certificates.offset;
    if placement == Placement::After && offset % UNIT != 0 {
        return Err(SignError::TableOffset(offset));
    }
    require_certificate(certificate)?;
    joined_length(
        kept_length(placement, &left_out, bytes.len()),
        certificate.len(),
    )?;
    Ok(left_out)
}

/// The length of the file with a certificate of `size` bytes.
fn attached_length(placement: Placement, left_out: &LeftOut, length: usize, size: usize) -> usize
    requires { FitsWith placement left_out.now length size }
    ensures { result ≡ rounded_up
        (kept_length placement left_out.now length) 8 + rounded_up size 8 }
{
    rounded_up(kept_length(placement, left_out, length), UNIT) + rounded_up(size, UNIT)
}

/// Writes the image with the certificate at the start of the buffer. The caller has checked that it fits.
fn set_attached(
    out: &mut [u8],
    bytes: &[u8],
    left_out: &LeftOut,
    certificate: &[u8],
    placement: Placement,
) -> usize
    requires fits { FitsWith placement left_out.now (length bytes.now) (length certificate.now) }
    requires room { rounded_up (kept_length placement left_out.now (length bytes.now)) 8
        + rounded_up (length certificate.now) 8 ≤ length out.old }
    ensures value { result ≡ length
        (attached_file placement left_out.now certificate.now bytes.now) }
    ensures after { out.new
        ≡ attached_file placement left_out.now certificate.now bytes.now ++ drop result out.old }
{
    let kept = kept_length(placement, left_out, bytes.len());
    let end = attached_length(placement, left_out, bytes.len(), certificate.len());
    let start = table_start(placement, left_out, bytes.len());
    let entry = DataDirectory {
        virtual_address: start as u32,
        size: (end - start) as u32,
    };
    set_joined(out, &bytes[..kept], certificate);
    set_fields(out, end, left_out, entry);
    end
}

/// The length of the file that `attach` writes with these arguments. Errors: those of `attach`, but for the buffer's.
pub fn attached_len(
    bytes: &[u8],
    header: &Header<'_>,
    certificate: &[u8],
    placement: Placement,
) -> Result<usize, SignError>
    ensures { SignReturns result
        (length_of (attached_of placement bytes.now (header_view header.now) certificate.now)) }
{
    let left_out = certified(bytes, header, certificate, placement)?;
    Ok(attached_length(placement, &left_out, bytes.len(), certificate.len()))
}

/// Attaches a certificate: writes the image at the start of `out`, with zeros up to a multiple of eight, the
/// certificate, zeros again, the entry of the certificate directory and the checksum. Returns how long that is; the
/// bytes of `out` after it stay as they were. `bytes` is the whole file, `header` is the image's. `certificate` is one
/// or more entries of a certificate table (`WIN_CERTIFICATE`), each of them but the last with its padding to a multiple
/// of eight bytes.
///
/// Errors, in this order, each of which leaves `out` as it was:
/// - `Image` with `NoOptionalHeader`; `NoDirectory` if there are fewer than five data directories;
/// - `Image` with `CertificateTable` if the certificate table passes the end of the file; `TableNotLast` if it ends
///   before that;
/// - `Headers`, `Section` if headers or the data of a section end after the start of the table, or after the end of the
///   file if there is none;
/// - `TableOffset` if the certificate is to go after others whose table is not at a multiple of eight;
/// - `Image` with `Short` or `CertificateSize` if the certificate has fewer than eight bytes, or than its first entry says;
/// - `TooLarge` if the image with it has 2^32 bytes or more; `Image` with `WriteFit` if that does not fit into `out`.
pub fn attach(
    bytes: &[u8],
    header: &Header<'_>,
    certificate: &[u8],
    placement: Placement,
    out: &mut [u8],
) -> Result<usize, SignError>
    ensures written { SignReturnsWritten result (written
        (attached_of placement bytes.now (header_view header.now) certificate.now) out.old) out.old out.new }
    ensures within { IfOk result (λ n. n ≤ length out.new) }
    ensures file { IfOk result (λ n. attached_of placement bytes.now
        (header_view header.now) certificate.now ≡ Ok (take n out.new)) }
{
    let left_out = certified(bytes, header, certificate, placement)?;
    let length = attached_length(placement, &left_out, bytes.len(), certificate.len());
    require_room(out, 0, length)?;
    Ok(set_attached(out, bytes, &left_out, certificate, placement))
}

/// Writes the image without certificates at the start of the buffer. The caller has checked that it fits.
fn set_detached(out: &mut [u8], bytes: &[u8], left_out: &LeftOut) -> usize
    requires fits { Fits left_out.now (length bytes.now) }
    requires room { unsigned_length left_out.now (length bytes.now) ≤ length out.old }
    ensures value { result ≡ length (detached_file left_out.now bytes.now) }
    ensures after { out.new ≡ detached_file left_out.now bytes.now ++ drop result out.old }
{
    let end = unsigned_length(left_out, bytes.len());
    set_slice(out, 0, &bytes[..end]);
    set_fields(out, end, left_out, ABSENT);
    end
}

/// The length of the file that `detach` writes with these arguments. Errors: those of `detach`, but for the buffer's.
pub fn detached_len(bytes: &[u8], header: &Header<'_>) -> Result<usize, SignError>
    ensures { SignReturns result (length_of (detached_of bytes.now (header_view header.now))) }
{
    let left_out = image(bytes, header)?;
    Ok(unsigned_length(&left_out, bytes.len()))
}

/// Detaches all certificates: writes the image at the start of `out` up to its certificate table, with zeros in the
/// entry of the certificate directory, and the checksum. Returns how long that is; the bytes of `out` after it stay as
/// they were. An image without certificates stays as it is, but for its checksum. `bytes` is the whole file, `header`
/// is the image's.
///
/// Errors, in this order, each of which leaves `out` as it was: those of `attach` up to `Section`; `Image` with
/// `WriteFit` if the image does not fit into `out`.
pub fn detach(bytes: &[u8], header: &Header<'_>, out: &mut [u8]) -> Result<usize, SignError>
    ensures written { SignReturnsWritten result
        (written (detached_of bytes.now (header_view header.now)) out.old) out.old out.new }
    ensures within { IfOk result (λ n. n ≤ length out.new) }
    ensures file { IfOk result (λ n. detached_of bytes.now (header_view header.now)
        ≡ Ok (take n out.new)) }
{
    let left_out = image(bytes, header)?;
    require_room(out, 0, unsigned_length(&left_out, bytes.len()))?;
    Ok(set_detached(out, bytes, &left_out))
}
