//! Laws of attribute certificates.

ghost use Rattle.std.specs.Prelude.{◌≡◌, ℕ, ◌+◌, ◌%◌, ◌≤◌, ◌↔◌, List, [], ◌∷◌, ◌++◌, Ok, Err, length};
ghost use Rattle.pe_core.specs.Bytes.{AreBytes, range, splice};
ghost use Rattle.pe_core.specs.Refusals.{Refusal};
ghost use Rattle.pe_core.specs.SectionMap.{rounded_up};
ghost use Rattle.pe_records.specs.Certificates.{CertificateView, certificate_at, certificates_at, IsListing, IsRefused, joined_size};
ghost use Rattle.pe_core.specs.Offsets.{StandAt};
ghost use Rattle.pe_records.specs.CertificateWriting.{IsWhole, spell_certificate, padding, written_length, written_certificate, written_certificates};

/// A table has one listing or one error, never both; `certificates_at` returns that one.
pub fn tables_have_one_listing()
    ensures listing { (b : List ℕ) (address size : ℕ) (cs : List CertificateView) →
        IsListing b address size cs ↔ (certificates_at b address size ≡ Ok cs) }
    ensures refusal { (b : List ℕ) (address size : ℕ) (r : Refusal) →
        IsRefused b address size r ↔ (certificates_at b address size ≡ Err r) }
    ensures one_listing { (b : List ℕ) (address size : ℕ) (cs ds : List CertificateView) →
        IsListing b address size cs → IsListing b address size ds → cs ≡ ds }
    ensures one_refusal { (b : List ℕ) (address size : ℕ) (r s : Refusal) →
        IsRefused b address size r → IsRefused b address size s → r ≡ s }
    ensures apart { (b : List ℕ) (address size : ℕ) (cs : List CertificateView) (r : Refusal) →
        IsListing b address size cs → IsRefused b address size r → ⊥ }
{}

/// A certificate that is written at a multiple of eight, with the length that its body has, is read there again.
#[tactic(auto, using(crate::proofs::CertificatesReadAgain::read_again))]
pub fn written_certificates_are_read_again()
    ensures { (b : List ℕ) (p : ℕ) (c : CertificateView) →
        IsWhole c → p % 8 ≡ 0 → p + written_length c ≤ length b →
        certificate_at (splice b p (written_certificate c)) p ≡ Ok (c, p + written_length c) }
{}

/// A written certificate is its three pieces, written in turn: the header, the body and the zeros.
#[tactic(auto, using(crate::proofs::CertificatePieces::three_pieces))]
pub fn certificates_are_three_pieces()
    ensures { (b : List ℕ) (p : ℕ) (c : CertificateView) → p ≤ length b → splice b p
        (written_certificate c) ≡ splice (splice (splice b p (spell_certificate c)) (p + 8) c.body)
        (p + 8 + length c.body) (padding c) }
{}

/// The body of a certificate that is read follows the eight bytes of its header.
#[tactic(auto, using(crate::proofs::PartsInOffset::body_stands))]
pub fn bodies_stand_after_their_headers()
    ensures { (b : List ℕ) (p : ℕ) (c : CertificateView) (next : ℕ) →
        certificate_at b p ≡ Ok (c, next) → StandAt b (p + 8) c.body }
{}

/// A certificate that is read has the body that its length says. At a multiple of eight it takes as many bytes as when
/// it is written, up to the offset after it.
#[tactic(auto, using(crate::proofs::CertificatesReadAgain::whole, crate::proofs::CertificatesReadAgain::next_offset))]
pub fn certificates_that_are_read_are_whole()
    ensures whole { (b : List ℕ) (p : ℕ) (c : CertificateView) (next : ℕ) →
        AreBytes b → certificate_at b p ≡ Ok (c, next) → IsWhole c }
    ensures next { (b : List ℕ) (p : ℕ) (c : CertificateView) (next : ℕ) →
        AreBytes b → p % 8 ≡ 0 → certificate_at b p ≡ Ok (c, next) → next ≡ p + written_length c }
{}

/// Listed certificates are listed again once they are written one after the other, from the table's offset on, which
/// is a multiple of eight, into any buffer that has the table and room for them.
#[tactic(auto, using(crate::proofs::CertificatePieces::in_turn, crate::proofs::CertificatesReadAgain::listed_again))]
pub fn written_listings_are_listed_again()
    ensures again { (b buffer : List ℕ) (address size : ℕ) (cs : List CertificateView) →
        AreBytes b →
        address % 8 ≡ 0 → IsListing b address size cs → address + size ≤ length buffer →
        address + length (written_certificates cs) ≤ length buffer →
        IsListing (splice buffer address (written_certificates cs)) address size cs }
    ensures in_turn { (b : List ℕ) (p : ℕ) (c : CertificateView) (cs : List CertificateView) →
        p ≤ length b → splice b p (written_certificates (c ∷ cs)) ≡ splice
        (splice b p (written_certificate c)) (p + written_length c) (written_certificates cs) }
{}

/// A table that ends its file stays a part of a longer one: where other certificates follow it, with its padding before
/// them, its own are listed first and then the others, all unchanged. The others are those of bytes that are a table by
/// themselves, and stand in the file at a multiple of eight, where they are listed alone too. One certificate whose length
/// reaches the end of its bytes is such a table.
#[tactic(auto, using(crate::proofs::JoinedListings::joined_listing, crate::proofs::JoinedListings::moved_listing, crate::proofs::JoinedListings::one_listing))]
pub fn joined_tables_are_listed()
    ensures joined { (b more file : List ℕ)
        (address size n : ℕ) (cs ds : List CertificateView) → address % 8 ≡ 0 →
        length b ≡ address + size → IsListing b address size cs →
        IsListing more 0 (length more) ds → StandAt file address (range b address size) →
        StandAt file (address + rounded_up size 8) more →
        n ≡ joined_size size more → address + n ≤ length file →
        IsListing file address n (cs ++ ds) }
    ensures moved { (more file : List ℕ) (p n : ℕ) (ds : List CertificateView) → p % 8 ≡ 0 →
        IsListing more 0 (length more) ds → StandAt file p more →
        n ≡ rounded_up (length more) 8 → p + n ≤ length file → IsListing file p n ds }
    ensures one { (more : List ℕ) (c : CertificateView) (next : ℕ) →
        certificate_at more 0 ≡ Ok (c, next) → length more ≤ next →
        IsListing more 0 (length more) (c ∷ []) }
{}
