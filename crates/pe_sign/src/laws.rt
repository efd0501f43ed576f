//! Laws over the definitions. Each is the contract of a function that does nothing.

ghost use Rattle.std.specs.Prelude.{◌≡◌, ℕ, ◌+◌, ◌-◌, ◌%◌, ◌<◌, ◌≤◌, List, Ok, Err, false, true, flat_map, length};
ghost use Rattle.pe_core.specs.Bytes.{AreBytes, le};
ghost use Rattle.pe_core.specs.Directories.{absent_directory};
ghost use Rattle.pe_core.specs.Header.{HeaderView, header_at};
ghost use Rattle.pe_core.specs.Offsets.{bytes_in};
ghost use Rattle.pe_core.specs.Refusals.{Short};
ghost use Rattle.pe_core.specs.Sections.{sections_offset};
ghost use Rattle.pe_core.specs.declared.options.ParseMode.{ParseMode};
ghost use Rattle.pe_sign.specs.Attaching.{IsAttached, IsDetached, is_signed, unsigned_length, kept_length, entry_to, table_start, attached_of, detached_of, with_checksum, with_both_fields, with_table, without_table, before_table};
ghost use Rattle.pe_sign.specs.Checksum.{checksum_of};
ghost use Rattle.pe_sign.specs.Digest.{Covered, left_out_of, covered, covered_bytes, digest_of};
ghost use Rattle.pe_sign.specs.DigestRanges.{EndBy, digest_ranges_of};
ghost use Rattle.pe_sign.specs.WrittenHeaders.{directories_end, headers_with};
ghost use Rattle.pe_sign.specs.WrittenTables.{TableContinues, TableIs};
ghost use Rattle.pe_sign.specs.declared.attachment.Placement.{Placement};
ghost use Rattle.pe_sign.specs.declared.digest.LeftOut.{LeftOut};
ghost use Rattle.pe_sign.specs.declared.file_ranges.DigestRanges.{DigestRanges};

pub mod calls;

/// What a signature signs stays: what the digest covers of an image that `attach` or `detach` writes are the bytes that it
/// covers of the image that they were given. To attach may put zeros into the file that the digest of the image added;
/// as bytes both are equal. The parts that the digest leaves out of what is written are those of the image, with the
/// certificate table that the entry names now.
#[tactic(auto, using(crate::proofs::WrittenImages::attached_digest_of, crate::proofs::WrittenImages::detached_digest_of))]
pub fn digests_stay()
    ensures attached { (placement : Placement) (b : List ℕ) (h : HeaderView) (certificate f : List ℕ)
        (l : LeftOut) → left_out_of h ≡ Ok l → attached_of placement b h certificate ≡ Ok f →
        covered_bytes (covered (with_table l (table_start placement l (length b)) (length f)) f)
        ≡ covered_bytes (covered l b) }
    ensures detached { (b : List ℕ) (h : HeaderView) (f : List ℕ) (l : LeftOut) →
        left_out_of h ≡ Ok l → detached_of b h ≡ Ok f → covered (without_table l) f ≡ covered l b }
{}

/// The bytes of the ranges that `digest_ranges` returns, one after the other, are those that the digest covers, and as many
/// zeros follow. The ranges lie in the file.
#[tactic(auto, using(crate::proofs::KeptRanges::ranges_cover, crate::proofs::KeptRanges::ranges_end))]
pub fn ranges_are_what_a_digest_covers()
    ensures content { (b : List ℕ) (h : HeaderView) (r : DigestRanges) (c : Covered) →
        digest_ranges_of b h ≡ Ok r → digest_of b h ≡ Ok c →
        (flat_map (bytes_in b) r.ranges ≡ c.content) × (r.zeros ≡ c.zeros) }
    ensures within { (b : List ℕ) (h : HeaderView) (r : DigestRanges) →
        digest_ranges_of b h ≡ Ok r → EndBy (length b) r.ranges }
{}

/// The checksum of an image that `attach` or `detach` writes is what its header's field has.
#[tactic(auto, using(crate::proofs::Detaching::attached_sum, crate::proofs::Detaching::detached_sum))]
pub fn checksums_are_good()
    ensures attached { (placement : Placement) (b : List ℕ) (h : HeaderView) (certificate f : List ℕ)
        (l : LeftOut) → left_out_of h ≡ Ok l → attached_of placement b h certificate ≡ Ok f →
        le f l.checksum.offset 4 ≡ checksum_of f l.checksum.offset }
    ensures detached { (b : List ℕ) (h : HeaderView) (f : List ℕ) (l : LeftOut) → left_out_of h ≡ Ok l →
        detached_of b h ≡ Ok f → le f l.checksum.offset 4 ≡ checksum_of f l.checksum.offset }
{}

/// To detach what was attached leaves what is before the certificate table, with an entry of zeros and the checksum:
/// the image as it was, but for zeros at its end, the entry and the checksum; without any certificate that it had. The
/// header `k` is any whose parts are those of the image with the table that the entry names now.
pub fn attached_certificates_are_detached()
    ensures { (placement : Placement) (b : List ℕ) (h k : HeaderView) (certificate f g : List ℕ)
        (l : LeftOut) → left_out_of h ≡ Ok l → attached_of placement b h certificate ≡ Ok f →
        left_out_of k ≡ Ok (with_table l (table_start placement l (length b)) (length f)) →
        detached_of f k ≡ Ok g →
        g ≡ with_both_fields l absent_directory (before_table placement l b) }
{}

/// The entry of the certificate directory, read from what `attach` writes, names the certificate table: from where it
/// starts to the end of the file.
pub fn entries_name_the_table()
    ensures { (placement : Placement) (b : List ℕ) (h : HeaderView) (certificate f : List ℕ)
        (l : LeftOut) → left_out_of h ≡ Ok l → attached_of placement b h certificate ≡ Ok f →
        (le f l.directory_entry.offset 4 ≡ table_start placement l (length b))
        × (le f (l.directory_entry.offset + 4) 4 ≡ length f - table_start placement l (length b)) }
{}

/// What `attach` and `detach` write is parsed: to the headers of the image, with the entry that the certificate directory
/// has now and with the checksum of what was written, and nothing else changes. The data directories have to stay: they end
/// at or before what is kept of the file, and `directories_stay` says when. Where `detach` leaves a part of them out, the
/// parser refuses what it wrote.
#[tactic(auto, using(crate::proofs::WrittenAgain::header_attached, crate::proofs::WrittenAgain::header_detached, crate::proofs::WrittenAgain::header_lost))]
pub fn written_headers_are_parsed()
    ensures attached { (mode : ParseMode) (placement : Placement) (b : List ℕ) (h : HeaderView)
        (certificate f : List ℕ) (l : LeftOut) → IsAttached mode placement b h certificate f l →
        directories_end h ≤ kept_length placement l (length b) →
        header_at f mode ≡ Ok (headers_with (entry_to (table_start placement l (length b)) (length f))
        (checksum_of f l.checksum.offset) h) }
    ensures detached { (mode : ParseMode) (b : List ℕ) (h : HeaderView) (f : List ℕ) (l : LeftOut) →
        IsDetached mode b h f l → directories_end h ≤ unsigned_length l (length b) →
        header_at f mode
        ≡ Ok (headers_with absent_directory (checksum_of f l.checksum.offset) h) }
    ensures truncated { (mode : ParseMode) (b : List ℕ) (h : HeaderView) (f : List ℕ) (l : LeftOut)
        → IsDetached mode b h f l → unsigned_length l (length b) < directories_end h →
        header_at f mode ≡ Err Short }
{}

/// By the headers that are parsed of what was written, the parts that a digest leaves out are those of the image with the
/// certificate table that its entry names now, or without one. So `k` is a header as `attached_certificates_are_detached`
/// asks for.
#[tactic(auto, using(crate::proofs::WrittenHeaders::attached_parsed, crate::proofs::WrittenHeaders::detached_parsed))]
pub fn parsed_headers_name_the_parts()
    ensures attached { (mode : ParseMode) (placement : Placement) (b : List ℕ) (h k : HeaderView)
        (certificate f : List ℕ) (l : LeftOut) → IsAttached mode placement b h certificate f l →
        directories_end h ≤ kept_length placement l (length b) → header_at f mode ≡ Ok k →
        left_out_of k ≡ Ok (with_table l (table_start placement l (length b)) (length f)) }
    ensures detached { (mode : ParseMode) (b : List ℕ) (h k : HeaderView) (f : List ℕ) (l : LeftOut)
        → IsDetached mode b h f l → directories_end h ≤ unsigned_length l (length b) →
        header_at f mode ≡ Ok k →
        left_out_of k ≡ Ok (without_table l) }
{}

/// What a signature signs stays for whoever parses what was written: by those headers the digest covers what it covered of the
/// image, as bytes with the zeros that follow them.
#[tactic(auto, using(crate::proofs::WrittenHeaders::attached_digest_parsed, crate::proofs::WrittenHeaders::detached_digest_parsed))]
pub fn parsed_digests_stay()
    ensures attached { (mode : ParseMode) (placement : Placement) (b : List ℕ) (h k : HeaderView)
        (certificate f : List ℕ) (l : LeftOut) (c d : Covered) →
        IsAttached mode placement b h certificate f l →
        directories_end h ≤ kept_length placement l (length b) → header_at f mode ≡ Ok k →
        digest_of b h ≡ Ok c → digest_of f k ≡ Ok d → covered_bytes d ≡ covered_bytes c }
    ensures detached { (mode : ParseMode) (b : List ℕ) (h k : HeaderView) (f : List ℕ) (l : LeftOut)
        → IsDetached mode b h f l → directories_end h ≤ unsigned_length l (length b) →
        header_at f mode ≡ Ok k → digest_of f k ≡ digest_of b h }
{}

/// To detach what was attached, by the headers that are parsed of it, leaves what is before the certificate table, with an
/// entry of zeros and the checksum.
pub fn parsed_certificates_are_detached()
    ensures { (mode : ParseMode) (placement : Placement) (b : List ℕ) (h k : HeaderView)
        (certificate f g : List ℕ) (l : LeftOut) → IsAttached mode placement b h certificate f l →
        directories_end h ≤ kept_length placement l (length b) → header_at f mode ≡ Ok k →
        detached_of f k ≡ Ok g → g ≡ with_both_fields l absent_directory (before_table placement l b) }
{}

/// What is attached can be detached, by the headers that are parsed of it, if the data directories end before the section
/// table: `detach` does not refuse it, and leaves the image as it was, but for zeros at its end, the entry and the checksum;
/// without any certificate that it had.
#[tactic(auto, using(crate::proofs::DetachedAgain::is_detached))]
pub fn attached_images_can_be_detached()
    ensures { (mode : ParseMode) (placement : Placement) (b : List ℕ) (h k : HeaderView)
        (certificate f : List ℕ) (l : LeftOut) → IsAttached mode placement b h certificate f l →
        directories_end h ≤ sections_offset h → header_at f mode ≡ Ok k →
        detached_of f k ≡ Ok (with_both_fields l absent_directory (before_table placement l b)) }
{}

/// An unsigned image whose length is a multiple of eight comes back: what is attached to it is detached, by the headers that
/// are parsed of it, and leaves the image byte for byte if its checksum is right, and else with its checksum, as long as the
/// data directories end before the section table.
#[tactic(auto, using(crate::proofs::WrittenAgain::whole_again, crate::proofs::WrittenAgain::checked_again))]
pub fn unsigned_images_come_back()
    ensures whole { (mode : ParseMode) (placement : Placement) (b : List ℕ) (h k : HeaderView)
        (certificate f : List ℕ) (l : LeftOut) → AreBytes b →
        IsAttached mode placement b h certificate f l → is_signed l ≡ false → length b % 8 ≡ 0 →
        le b l.checksum.offset 4 ≡ checksum_of b l.checksum.offset →
        directories_end h ≤ sections_offset h → header_at f mode ≡ Ok k → detached_of f k ≡ Ok b }
    ensures checksum { (mode : ParseMode) (placement : Placement) (b : List ℕ) (h k : HeaderView)
        (certificate f : List ℕ) (l : LeftOut) → AreBytes b →
        IsAttached mode placement b h certificate f l → is_signed l ≡ false → length b % 8 ≡ 0 →
        directories_end h ≤ sections_offset h →
        header_at f mode ≡ Ok k → detached_of f k ≡ Ok (with_checksum l b) }
{}

/// When the data directories stay. They lie in the file, so they do where all of it is kept. Where they end before the
/// section table, as `SizeOfOptionalHeader` says in every image of a linker, they stay in all that is written. In a hostile
/// image the certificate table starts inside of them: the parser does not compare the two, and neither do `attach` and
/// `detach`. What is written of such an image has other directories, or the parser refuses it.
#[tactic(auto, using(crate::proofs::HeadersStay::directories_inside, crate::proofs::WrittenHeaders::attached_keeps, crate::proofs::WrittenHeaders::detached_keeps))]
pub fn directories_stay()
    ensures inside { (mode : ParseMode) (b : List ℕ) (h : HeaderView) → header_at b mode ≡ Ok h →
        directories_end h ≤ length b }
    ensures attached { (placement : Placement) (b : List ℕ) (h : HeaderView) (certificate f : List ℕ)
        (l : LeftOut) → left_out_of h ≡ Ok l → attached_of placement b h certificate ≡ Ok f →
        directories_end h ≤ sections_offset h →
        directories_end h ≤ kept_length placement l (length b) }
    ensures detached { (b : List ℕ) (h : HeaderView) (f : List ℕ) (l : LeftOut) →
        left_out_of h ≡ Ok l → detached_of b h ≡ Ok f → directories_end h ≤ sections_offset h →
        directories_end h ≤ unsigned_length l (length b) }
{}

/// The certificate table of what `attach` writes. Attached in place, or to an image without certificates, the certificate
/// and its padding are the whole table. Attached after others, which stay as they were, it follows them and their padding.
/// With `joined_tables_are_listed` of pe_records the parser lists the certificates that the image had, and then this one.
pub fn written_tables_have_the_certificate()
    ensures in_place { (b : List ℕ) (h : HeaderView) (certificate f : List ℕ) (l : LeftOut) →
        left_out_of h ≡ Ok l → attached_of Placement.InPlace b h certificate ≡ Ok f →
        TableIs certificate f (table_start Placement.InPlace l (length b)) }
    ensures first { (b : List ℕ) (h : HeaderView) (certificate f : List ℕ) (l : LeftOut) →
        left_out_of h ≡ Ok l → attached_of Placement.After b h certificate ≡ Ok f →
        is_signed l ≡ false → TableIs certificate f (table_start Placement.After l (length b)) }
    ensures after { (b : List ℕ) (h : HeaderView) (certificate f : List ℕ) (l : LeftOut) →
        left_out_of h ≡ Ok l → attached_of Placement.After b h certificate ≡ Ok f →
        is_signed l ≡ true → TableContinues b certificate f l.certificates }
{}
