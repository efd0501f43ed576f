//! Laws of calls, for a program that proves facts of its own: each takes the values that the calls took and returned, and
//! requires no more than what their contracts say, so `search` finds it at the calls. They do nothing when they run.

ghost use Rattle.std.specs.Prelude.{◌≡◌, ◌%◌, ◌≤◌, Ok, false, flat_map, length};
ghost use Rattle.pe_core.specs.Bytes.{AreBytes, le};
ghost use Rattle.pe_core.specs.Directories.{absent_directory};
ghost use Rattle.pe_core.specs.Header.{HeaderView, header_at, header_view};
ghost use Rattle.pe_core.specs.Offsets.{bytes_in};
ghost use Rattle.pe_core.specs.Sections.{sections_offset};
ghost use Rattle.pe_sign.specs.Attaching.{attached_of, before_table, detached_of, is_signed, with_both_fields};
ghost use Rattle.pe_sign.specs.Checksum.{checksum_of};
ghost use Rattle.pe_sign.specs.Digest.{covered_bytes, digest_of, left_out_of, ranges_view};
ghost use Rattle.pe_sign.specs.DigestRanges.{EndBy, digest_ranges_of};
ghost use Rattle.pe_sign.specs.WrittenHeaders.{directories_end};
ghost use Rattle.pe_sign.specs.declared.digest.LeftOut.{LeftOut};

use crate::attachment::Placement;
use crate::digest::AuthenticodeRanges;
use crate::file_ranges::DigestRanges;
use pe_core::{Header, ParseMode};

/// A call of `attach`: what it took, and the file that it wrote.
#[derive(Clone, Copy)]
pub struct Attachment<'a> {
    /// The file of the image.
    pub bytes: &'a [u8],
    /// Its headers.
    pub header: &'a Header<'a>,
    /// The certificate.
    pub certificate: &'a [u8],
    /// Where it is attached.
    pub placement: Placement,
    /// The first bytes of the buffer, as many as `attach` returned.
    pub file: &'a [u8],
}

/// `detach` takes off what `attach` wrote, by the headers that are parsed of it, and leaves the image as it was, but for zeros
/// at its end, the entry and the checksum, without its certificates.
pub fn attached_is_detached(call: Attachment<'_>, mode: ParseMode, read: &Header<'_>)
    requires parsed { header_at call.bytes.now mode ≡ Ok (header_view call.header.now) }
    requires attached { attached_of call.placement call.bytes.now (header_view call.header.now)
        call.certificate.now ≡ Ok call.file.now }
    requires again { header_at call.file.now mode ≡ Ok (header_view read.now) }
    ensures { (h : HeaderView) (l : LeftOut) → header_at call.entry.bytes.now mode ≡ Ok h →
        left_out_of h ≡ Ok l → directories_end h ≤ sections_offset h →
        detached_of call.entry.file.now (header_view read.now)
        ≡ Ok (with_both_fields l absent_directory (before_table call.entry.placement l call.entry.bytes.now)) }
{}

/// An unsigned image whose length is a multiple of eight, with a right checksum, comes back byte for byte.
pub fn unsigned_image_comes_back(call: Attachment<'_>, mode: ParseMode, read: &Header<'_>)
    requires parsed { header_at call.bytes.now mode ≡ Ok (header_view call.header.now) }
    requires attached { attached_of call.placement call.bytes.now (header_view call.header.now)
        call.certificate.now ≡ Ok call.file.now }
    requires again { header_at call.file.now mode ≡ Ok (header_view read.now) }
    requires content { AreBytes call.bytes.now }
    ensures { (h : HeaderView) (l : LeftOut) → header_at call.entry.bytes.now mode ≡ Ok h →
        left_out_of h ≡ Ok l → is_signed l ≡ false → length call.entry.bytes.now % 8 ≡ 0 →
        le call.entry.bytes.now l.checksum.offset 4
        ≡ checksum_of call.entry.bytes.now l.checksum.offset →
        directories_end h ≤ sections_offset h →
        detached_of call.entry.file.now (header_view read.now) ≡ Ok call.entry.bytes.now }
{}

/// The digest of what `attach` wrote, by the headers that are parsed of it, covers the bytes that the digest of the image
/// covers, if the data directories end before the section table.
pub fn digest_stays(
    call: Attachment<'_>,
    mode: ParseMode,
    read: &Header<'_>,
    old: AuthenticodeRanges<'_>,
    new: AuthenticodeRanges<'_>,
)
    requires parsed { header_at call.bytes.now mode ≡ Ok (header_view call.header.now) }
    requires attached { attached_of call.placement call.bytes.now (header_view call.header.now)
        call.certificate.now ≡ Ok call.file.now }
    requires ends { directories_end (header_view call.header.now)
        ≤ sections_offset (header_view call.header.now) }
    requires again { header_at call.file.now mode ≡ Ok (header_view read.now) }
    requires old { digest_of call.bytes.now (header_view call.header.now) ≡ Ok (ranges_view old) }
    requires new { digest_of call.file.now (header_view read.now) ≡ Ok (ranges_view new) }
    ensures { covered_bytes (ranges_view new.entry) ≡ covered_bytes (ranges_view old.entry) }
{}

/// The ranges that `digest_ranges` returned have, one after the other, the bytes of the slices that `authenticode_ranges`
/// returned, and as many zeros follow.
pub fn ranges_are_slices(
    bytes: &[u8],
    header: &Header<'_>,
    slices: AuthenticodeRanges<'_>,
    digest: DigestRanges,
)
    requires slices { digest_of bytes.now (header_view header.now) ≡ Ok (ranges_view slices) }
    requires ranges { digest_ranges_of bytes.now (header_view header.now) ≡ Ok digest }
    ensures content { flat_map (bytes_in bytes.now) digest.ranges
        ≡ (ranges_view slices.entry).content }
    ensures zeros { digest.zeros ≡ (ranges_view slices.entry).zeros }
    ensures within { EndBy (length bytes.now) digest.ranges }
{}

/// The field of the checksum of what `attach` wrote is its checksum.
pub fn checksum_is_good(call: Attachment<'_>)
    requires { attached_of call.placement call.bytes.now (header_view call.header.now)
        call.certificate.now ≡ Ok call.file.now }
    ensures { (l : LeftOut) → left_out_of (header_view call.entry.header.now) ≡ Ok l →
        le call.entry.file.now l.checksum.offset 4
        ≡ checksum_of call.entry.file.now l.checksum.offset }
{}
