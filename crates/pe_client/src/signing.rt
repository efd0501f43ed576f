//! What a signing tool proves of its own calls: what was attached is detached, the digest stays, checksums are good, and what
//! the parser lists of an image once a certificate is attached to it. The laws of `pe_sign::laws::calls` are called with what
//! the calls took and returned.

ghost use Rattle.std.specs.Prelude.{◌≡◌, ◌+◌, ◌-◌, ◌%◌, ◌≤◌, ◌++◌, ℕ, List, IfOk, Ok, false, true, flat_map, length, take};
ghost use Rattle.pe_core.specs.Bytes.{AreBytes, le, range};
ghost use Rattle.pe_core.specs.Directories.{absent_directory};
ghost use Rattle.pe_core.specs.Header.{HeaderView, header_at, header_view};
ghost use Rattle.pe_core.specs.Offsets.{bytes_in};
ghost use Rattle.pe_core.specs.SectionMap.{rounded_up};
ghost use Rattle.pe_core.specs.Sections.{sections_offset};
ghost use Rattle.pe_core.specs.declared.options.ParseMode.TheVariants.{Strict};
ghost use Rattle.pe_client.specs.Signatures.{digest_named, if_there};
ghost use Rattle.pe_pkcs7.specs.Fields.{Gives};
ghost use Rattle.pe_pkcs7.specs.Later.{IsReadAt};
ghost use Rattle.pe_records.specs.Certificates.{CertificateView, IsListing, IsListingFrom};
ghost use Rattle.pe_sign.specs.Attaching.{attached_of, before_table, is_signed, table_start, with_both_fields};
ghost use Rattle.pe_sign.specs.Checksum.{checksum_of};
ghost use Rattle.pe_sign.specs.Digest.{covered_bytes, digest_of, left_out_of, ranges_view};
ghost use Rattle.pe_sign.specs.WrittenHeaders.{directories_end};
ghost use Rattle.pe_sign.specs.declared.attachment.Placement.{Placement};
ghost use Rattle.pe_sign.specs.declared.digest.LeftOut.{LeftOut};

use pe_image::{Header, ParseMode, ParseOptions};
use pe_pkcs7::{
    ContentInfo, DigestInfo, Element, EncapsulatedContent, SignatureError, SignedData,
    SpcIndirectData,
};
use pe_sign::laws::calls::{
    Attachment, attached_is_detached, checksum_is_good, digest_stays, ranges_are_slices,
    unsigned_image_comes_back,
};
use pe_sign::{
    AuthenticodeRanges, DigestRanges, Placement, SignError, attach, authenticode_ranges, detach,
    digest_ranges,
};

/// Detaches what was attached to an image in strict mode. Two claims: it is the image as it was, but for zeros at its end,
/// the entry and the checksum, without its certificates; and an unsigned image whose length is a multiple of eight comes back
/// byte for byte if its checksum is right.
fn detach_again(call: Attachment<'_>, out: &mut [u8]) -> Result<usize, SignError>
    requires parsed { header_at call.bytes.now Strict ≡ Ok (header_view call.header.now) }
    requires attached { attached_of call.placement call.bytes.now (header_view call.header.now)
        call.certificate.now ≡ Ok call.file.now }
    requires content { AreBytes call.bytes.now }
    ensures image { (h : HeaderView) (l : LeftOut) → header_at call.entry.bytes.now Strict ≡ Ok h →
        left_out_of h ≡ Ok l → directories_end h ≤ sections_offset h →
        IfOk result (λ n. take n out.new ≡ with_both_fields l absent_directory
        (before_table call.entry.placement l call.entry.bytes.now)) }
    ensures unsigned { (h : HeaderView) (l : LeftOut) →
        header_at call.entry.bytes.now Strict ≡ Ok h → left_out_of h ≡ Ok l →
        is_signed l ≡ false → length call.entry.bytes.now % 8 ≡ 0 →
        le call.entry.bytes.now l.checksum.offset 4
        ≡ checksum_of call.entry.bytes.now l.checksum.offset →
        directories_end h ≤ sections_offset h →
        IfOk result (λ n. take n out.new ≡ call.entry.bytes.now) }
{
    let read = Header::parse_with_opts(call.file, &ParseOptions::default())?;
    attached_is_detached(call, ParseMode::Strict, &read);
    unsigned_image_comes_back(call, ParseMode::Strict, &read);
    let count = detach(call.file, &read, out)?;
    Ok(count)
}

/// Attaches a certificate, and detaches it again: `room` has the image with it, and `out` what is left then.
pub fn attach_and_detach(
    bytes: &[u8],
    certificate: &[u8],
    placement: Placement,
    room: &mut [u8],
    out: &mut [u8],
) -> Result<usize, SignError>
    ensures image { (h : HeaderView) (l : LeftOut) → header_at bytes.now Strict ≡ Ok h →
        left_out_of h ≡ Ok l → directories_end h ≤ sections_offset h →
        IfOk result (λ n. take n out.new
        ≡ with_both_fields l absent_directory (before_table placement l bytes.now)) }
    ensures unsigned { (h : HeaderView) (l : LeftOut) → header_at bytes.now Strict ≡ Ok h →
        left_out_of h ≡ Ok l → is_signed l ≡ false → length bytes.now % 8 ≡ 0 →
        le bytes.now l.checksum.offset 4 ≡ checksum_of bytes.now l.checksum.offset →
        directories_end h ≤ sections_offset h → IfOk result (λ n. take n out.new ≡ bytes.now) }
{
    let header = Header::parse_with_opts(bytes, &ParseOptions::default())?;
    let length = attach(bytes, &header, certificate, placement, room)?;
    let call = Attachment {
        bytes,
        header: &header,
        certificate,
        placement,
        file: &room[..length],
    };
    detach_again(call, out)
}

/// What the digests of an image (`before`) and of what was attached to it (`after`) cover: the same bytes (`same`), so a
/// signature of the image is valid for the file with it.
pub fn digests_of_both<'a>(
    call: Attachment<'a>,
) -> Result<(AuthenticodeRanges<'a>, AuthenticodeRanges<'a>), SignError>
    requires parsed { header_at call.bytes.now Strict ≡ Ok (header_view call.header.now) }
    requires attached { attached_of call.placement call.bytes.now (header_view call.header.now)
        call.certificate.now ≡ Ok call.file.now }
    requires ends { directories_end (header_view call.header.now)
        ≤ sections_offset (header_view call.header.now) }
    ensures same { IfOk result (λ r. covered_bytes (ranges_view r.1) ≡ covered_bytes (ranges_view r.0)) }
    ensures before { IfOk result (λ r. digest_of call.entry.bytes.now (header_view call.entry.header.now)
        ≡ Ok (ranges_view r.0)) }
    ensures after { (h : HeaderView) → header_at call.entry.file.now Strict ≡ Ok h →
        IfOk result (λ r. digest_of call.entry.file.now h ≡ Ok (ranges_view r.1)) }
{
    let read = Header::parse_with_opts(call.file, &ParseOptions::default())?;
    let old = authenticode_ranges(call.bytes, call.header)?;
    let new = authenticode_ranges(call.file, &read)?;
    digest_stays(call, ParseMode::Strict, &read, old, new);
    Ok((old, new))
}

/// Attaches a certificate after the others: in the file with it, the field of the checksum is the checksum.
pub fn attach_with_checksum(
    bytes: &[u8],
    header: &Header<'_>,
    certificate: &[u8],
    room: &mut [u8],
) -> Result<usize, SignError>
    ensures { (l : LeftOut) → left_out_of (header_view header.now) ≡ Ok l →
        IfOk result (λ n. le (take n room.new) l.checksum.offset 4
        ≡ checksum_of (take n room.new) l.checksum.offset) }
{
    let length = attach(bytes, header, certificate, Placement::After, room)?;
    checksum_is_good(Attachment {
        bytes,
        header,
        certificate,
        placement: Placement::After,
        file: &room[..length],
    });
    Ok(length)
}

/// What a digest covers, as slices and as ranges of the file: the ranges, one after the other, have the bytes of the slices,
/// and as many zeros follow.
pub fn slices_and_ranges<'a>(
    bytes: &'a [u8],
    header: &Header<'_>,
) -> Result<(AuthenticodeRanges<'a>, DigestRanges), SignError>
    ensures { IfOk result (λ r. (flat_map (bytes_in bytes.entry.now) r.1.ranges
        ≡ (ranges_view r.0).content) × (r.1.zeros ≡ r.0.zeros)) }
{
    let slices = authenticode_ranges(bytes, header)?;
    let ranges = digest_ranges(bytes, header)?;
    ranges_are_slices(bytes, header, slices, ranges);
    Ok((slices, ranges))
}

/// What is attached is listed, in the table that the entry names: the certificates that the image had, in their order, and
/// then those that were attached, unchanged. In place of the certificates that the image had, and in an image without any,
/// those that were attached are listed alone.
pub fn attached_certificates_are_listed()
    ensures after { (b : List ℕ) (h : HeaderView) (certificate f : List ℕ) (l : LeftOut)
        (cs ds : List CertificateView) → left_out_of h ≡ Ok l →
        attached_of Placement.After b h certificate ≡ Ok f → is_signed l ≡ true →
        IsListing b l.certificates.offset l.certificates.length cs →
        IsListing certificate 0 (length certificate) ds →
        IsListingFrom f (table_start Placement.After l (length b)) (cs ++ ds) }
    ensures first { (b : List ℕ) (h : HeaderView) (certificate f : List ℕ) (l : LeftOut)
        (ds : List CertificateView) → left_out_of h ≡ Ok l →
        attached_of Placement.After b h certificate ≡ Ok f → is_signed l ≡ false →
        IsListing certificate 0 (length certificate) ds →
        IsListingFrom f (table_start Placement.After l (length b)) ds }
    ensures in_place { (b : List ℕ) (h : HeaderView) (certificate f : List ℕ) (l : LeftOut)
        (ds : List CertificateView) → left_out_of h ≡ Ok l →
        attached_of Placement.InPlace b h certificate ≡ Ok f →
        IsListing certificate 0 (length certificate) ds →
        IsListingFrom f (table_start Placement.InPlace l (length b)) ds }
{
    pe_sign::laws::written_tables_have_the_certificate();
    pe_records::laws::certificates::joined_tables_are_listed();
}

/// What is attached reads as it did: of every part of the certificates that were given, as the signature in one of them, what
/// pe_pkcs7 reads of the file up to the part's end, by the offsets of the file, is what it reads of that part alone, each element and each error as many
/// bytes further on. The part stands in the file where the certificates do: after those that the image had and their padding, or from
/// where the certificate table starts.
pub fn attached_signatures_are_read()
    ensures after { (b : List ℕ) (h : HeaderView) (certificate f : List ℕ) (l : LeftOut) (p n : ℕ) →
        left_out_of h ≡ Ok l → attached_of Placement.After b h certificate ≡ Ok f → is_signed l ≡ true →
        p + n ≤ length certificate → IsReadAt f (range certificate p n)
        (l.certificates.offset + rounded_up l.certificates.length 8 + p) }
    ensures first { (b : List ℕ) (h : HeaderView) (certificate f : List ℕ) (l : LeftOut) (p n : ℕ) →
        left_out_of h ≡ Ok l → attached_of Placement.After b h certificate ≡ Ok f → is_signed l ≡ false →
        p + n ≤ length certificate →
        IsReadAt f (range certificate p n) (table_start Placement.After l (length b) + p) }
    ensures in_place { (b : List ℕ) (h : HeaderView) (certificate f : List ℕ) (l : LeftOut) (p n : ℕ) →
        left_out_of h ≡ Ok l → attached_of Placement.InPlace b h certificate ≡ Ok f →
        p + n ≤ length certificate →
        IsReadAt f (range certificate p n) (table_start Placement.InPlace l (length b) + p) }
{
    pe_sign::laws::written_tables_have_the_certificate();
    pe_pkcs7::laws::signatures_are_read_where_they_stand();
}

/// What is signed, if it is there.
fn if_there(offset: usize, content: Option<Element>) -> Result<Element, SignatureError>
    ensures { result ≡ if_there offset content }
{
    match content {
        Some(content) => Ok(content),
        None => Err(SignatureError::Missing(offset)),
    }
}

/// The digest of the image that a signature names, the body of a certificate. That it is the image's is another question.
#[tactic(auto, unfolding(crate::specs::Signatures::digest_named))]
pub fn named_digest(signature: &[u8]) -> Result<&[u8], SignatureError>
    ensures { Gives (λ s. s.now) result (digest_named signature.entry.now 0) }
{
    let info = ContentInfo::parse(signature)?;
    let signed = SignedData::parse(signature, &info)?;
    let encapsulated = EncapsulatedContent::parse(signature, signed.encapsulated)?;
    let content = if_there(signed.encapsulated.end, encapsulated.content)?;
    let indirect = SpcIndirectData::parse(signature, content)?;
    let digest = DigestInfo::parse(signature, indirect.message_digest)?;
    Ok(digest.digest.content_of(signature))
}

/// The digest that a signature names is read where the signature stands in a file, as by `attached_signatures_are_read`: the same of
/// the file up to its end as of the signature alone.
#[tactic(auto, unfolding(crate::specs::Signatures::digest_named))]
pub fn named_digests_are_read()
    ensures { (f b v : List ℕ) (k : ℕ) → IsReadAt f b k → digest_named b 0 ≡ Ok v →
        digest_named (take (k + length b) f) k ≡ Ok v }
{}
