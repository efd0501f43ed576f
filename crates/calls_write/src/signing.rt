//! What a signing tool needs of an image: the ranges of the file that its Authenticode digest covers, its checksum, and
//! certificates attached and detached. The digest leaves out the checksum, the entry of the certificate directory and the
//! certificates, so what a signature signs stays when it is attached. The certificate table is the end of the file.
//! https://learn.microsoft.com/windows/win32/debug/pe-format#process-for-generating-the-authenticode-pe-image-hash
//!
//! Each call reads the headers from the bytes, in the mode of the image that is passed: its other fields, and the
//! sections, make no difference, so a wrong one cannot lead a write astray.

ghost use Rattle.std.specs.Prelude.{◌≡◌};
ghost use Rattle.pe_core.specs.Header.{header_view};
ghost use Rattle.pe_core.specs.Refusals.{ReturnsAs, answer_of};
ghost use Rattle.calls_write.specs.Signing.{attached_at, checksum_at, detached_at, digest_at, digest_reported, headers_numbered, headers_of, placement_of};
ghost use Rattle.calls_base.specs.WrittenFiles.{NumberReturns, NumberReturnsWritten, length_numbered, written_numbered};

use calls_base::ranges::{Range, range_of};
use calls_base::results::{number_of, number_of_signing, options};
use calls_base::view::View;
use pe_core::Header;
use pe_sign::{
    DigestRanges, Placement, attach, attached_len, checksum, checksum_range, detach, detached_len,
    digest_ranges,
};

/// What the Authenticode digest of an image covers: ranges of the file, and then zeros.
#[repr(C)]
#[derive(Clone, Copy)]
pub struct Digest {
    /// In the order of the file. Those that are not needed are at the end, and empty.
    pub ranges: [Range; 4],
    /// How many bytes of zero follow, at most 7.
    pub zeros: u64,
}

/// The checksum that an image should have, and where it is.
#[repr(C)]
#[derive(Clone, Copy)]
pub struct ChecksumField {
    /// File offset of the field that holds it, 4 bytes.
    pub offset: u64,
    /// What the field has to hold.
    pub value: u32,
    /// 0.
    pub spare: u32,
}

/// The headers of the bytes, in the mode of an image.
pub fn headers_of<'a>(view: &View<'a>) -> pe_core::Result<Header<'a>>
    ensures { ReturnsAs header_view result (headers_of view.now.bytes.now view.now.image.now) }
{
    Header::parse_with_opts(view.bytes, &options(view.image.mode))
}

/// The headers of the bytes, in the mode of an image, or the number of an error.
pub fn headers<'a>(view: &View<'a>) -> Result<Header<'a>, u32>
    ensures { NumberReturns header_view result (headers_numbered view.now.bytes.now
        view.now.image.now) }
{
    match headers_of(view) {
        Ok(header) => Ok(header),
        Err(error) => Err(number_of(&error)),
    }
}

/// The ranges of a digest as callers get them.
#[tactic(auto, using(crate::proofs::DigestParts::four))]
fn digest_reported(digest: &DigestRanges) -> Digest
    ensures { result ≡ digest_reported digest.now }
{
    Digest {
        ranges: [
            range_of(digest.ranges[0]),
            range_of(digest.ranges[1]),
            range_of(digest.ranges[2]),
            range_of(digest.ranges[3]),
        ],
        zeros: digest.zeros as u64,
    }
}

pub fn digest_at(view: &View) -> pe_core::Result<Digest>
    ensures { answer_of result ≡ digest_at view.now.bytes.now view.now.image.now }
{
    let header = headers_of(view)?;
    let digest = digest_ranges(view.bytes, &header)?;
    Ok(digest_reported(&digest))
}

pub fn checksum_at(view: &View) -> pe_core::Result<ChecksumField>
    ensures { answer_of result ≡ checksum_at view.now.bytes.now view.now.image.now }
{
    let header = headers_of(view)?;
    let field = checksum_range(&header)?;
    let value = checksum(view.bytes, &header)?;
    Ok(ChecksumField {
        offset: field.offset as u64,
        value,
        spare: 0,
    })
}

/// Where a certificate is attached, by a number.
fn placement_of(number: u32) -> Placement
    ensures { result ≡ placement_of number }
{
    if number % 2 == 0 {
        Placement::After
    } else {
        Placement::InPlace
    }
}

/// The length of the file with a certificate.
pub fn attached_length(view: &View, certificate: &[u8], placement: u32) -> Result<u64, u32>
    ensures { NumberReturns (λ n. n) result (length_numbered
        (attached_at placement view.now.bytes.now view.now.image.now certificate.now)) }
{
    let header = headers(view)?;
    match attached_len(view.bytes, &header, certificate, placement_of(placement)) {
        Ok(length) => Ok(length as u64),
        Err(error) => Err(number_of_signing(&error)),
    }
}

pub fn attach_to(
    view: &View,
    certificate: &[u8],
    placement: u32,
    room: &mut [u8],
) -> Result<usize, u32>
    ensures { NumberReturnsWritten result
        (written_numbered
        (attached_at placement view.now.bytes.now view.now.image.now certificate.now) room.old)
        room.old room.new }
{
    let header = headers(view)?;
    match attach(
        view.bytes,
        &header,
        certificate,
        placement_of(placement),
        room,
    ) {
        Ok(length) => Ok(length),
        Err(error) => Err(number_of_signing(&error)),
    }
}

/// The length of the file without certificates.
pub fn detached_length(view: &View) -> Result<u64, u32>
    ensures { NumberReturns (λ n. n) result (length_numbered
        (detached_at view.now.bytes.now view.now.image.now)) }
{
    let header = headers(view)?;
    match detached_len(view.bytes, &header) {
        Ok(length) => Ok(length as u64),
        Err(error) => Err(number_of_signing(&error)),
    }
}

pub fn detach_to(view: &View, room: &mut [u8]) -> Result<usize, u32>
    ensures { NumberReturnsWritten result
        (written_numbered (detached_at view.now.bytes.now view.now.image.now) room.old)
        room.old room.new }
{
    let header = headers(view)?;
    match detach(view.bytes, &header, room) {
        Ok(length) => Ok(length),
        Err(error) => Err(number_of_signing(&error)),
    }
}
