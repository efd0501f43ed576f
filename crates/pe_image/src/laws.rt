//! Laws over the definitions of this crate. Each law is the contract of a function that does nothing. A caller's proof
//! cites a law by calling the function.

ghost use Rattle.std.specs.Prelude.{◌≡◌, ◌≢◌, ◌↔◌, ◌+◌, ◌/◌, ◌%◌, ◌<◌, ◌≤◌, ◌⊎◌, ℕ, List, [], Ok, Err, Option, Result, None, Some, is_ok, length, slice_index, true, unwrap_or};
ghost use Rattle.pe_core.specs.Bytes.{AreBytes, range};
ghost use Rattle.pe_core.specs.Header.{OptionalHeaderView, header_at};
ghost use Rattle.pe_core.specs.Imports.{ImportRecordView};
ghost use Rattle.pe_core.specs.Refusals.{Refusal, WriteFit};
ghost use Rattle.pe_core.specs.Sections.{SharesRawByte, sections_of};
ghost use Rattle.pe_core.specs.declared.section_table.SectionTable.{SectionTable};
ghost use Rattle.pe_core.specs.declared.data_directories.DataDirectory.{DataDirectory};
ghost use Rattle.pe_core.specs.declared.error.Error.{Error};
ghost use Rattle.pe_core.specs.declared.options.ParseMode.{ParseMode};
ghost use Rattle.pe_core.specs.declared.options.ParseOptions.{ParseOptions};
ghost use Rattle.pe_records.specs.Certificates.{IsListing};
ghost use Rattle.pe_resource.specs.Resources.{ResourceView};
ghost use Rattle.pe_unwind.specs.declared.function_table.RuntimeFunction.{RuntimeFunction};
ghost use Rattle.pe_unwind.specs.ExceptionTable.{ExceptionView, table_of};
ghost use Rattle.pe_unwind.specs.FunctionTable.{Finds, NeverFalls, functions, scan};
ghost use Rattle.pe_image.specs.Core.{AreLibrariesOf, CoreView, core_of};
ghost use Rattle.pe_image.specs.Layout.{alignment};
ghost use Rattle.pe_image.specs.Fields.{Field, certificate_field, given_value, list_by_mode};
ghost use Rattle.pe_image.specs.Headline.{AreDerived, IsPermissive};
ghost use Rattle.pe_image.specs.Image.{HasLibraries, ImageView, core_part, AreResourcesOf, IsImage, certificates_of, debug_of, exceptions_of, image_view, libraries_of, relocations_of};
ghost use Rattle.pe_image.specs.Overlay.{EndsInZeros, LeavesOverlay, Piece, all_fit, longest, overlay};
ghost use Rattle.pe_image.specs.Pieces.{all_certificate_pieces, all_section_pieces};
ghost use Rattle.pe_image.specs.Writing.{AreAligned, HasCertificateDirectory, ReturnsWritten, certificate_directory, certificates_written, clash, image_length, image_pieces, image_written, padded_pieces, sections_written, whole_length, whole_written};
ghost use Rattle.pe_image.specs.WritingSteps.{put_in_turn};
ghost use Rattle.pe_image.specs.declared.pe.PE.{PE};

/// The promise of permissive mode, as one law. An image is refused exactly if its core is (headers, section headers,
/// imports), and with the same refusal. Otherwise there is an image: it has that core; its name, `is_lib`, `is_64`,
/// entry point and image base are those of the core; and the field of each other directory has the value of that
/// directory's own definition, and is empty if the directory is absent or refused. This decides every field, so it also
/// defines the image.
#[tactic(auto, using(crate::proofs::Headline::headline))]
pub fn headline()
    ensures { (b : List ℕ) (o : ParseOptions) (r : Result ImageView Refusal) →
        o.parse_mode ≡ ParseMode.Permissive → (IsImage b o r ↔ IsPermissive b o (core_of b o) r) }
{}

/// The promise of the calls on an image. In an exception table that is sorted by start RVA, lookup finds what a linear
/// scan of the image's bytes finds. The table has one entry for every 12 bytes of its size; that `search` reads at most as
/// many entries as that number has binary digits is its own contract. An accepted write leaves the overlay of its pieces, and a
/// refused one changes nothing.
#[tactic(auto, using(crate::proofs::HeadlineCalls::image_leaves, crate::proofs::HeadlineCalls::sections_leave, crate::proofs::HeadlineCalls::certificates_leave))]
pub fn headline_calls()
    ensures lookup { (b : List ℕ) (o : ParseOptions) (c : CoreView)
        (x : ImageView) (v : ExceptionView) (a : ℕ) (found : Option RuntimeFunction) →
        core_of b o ≡ Ok c → IsImage b o (Ok x) → x.exception_data ≡ Some v →
        Finds (functions (table_of v)) a found → NeverFalls (functions (range b v.start v.size)) →
        found ≡ scan (functions (range b v.start v.size)) a }
    ensures entries { (b : List ℕ) (o : ParseOptions) (c : CoreView)
        (x : ImageView) (v : ExceptionView) → core_of b o ≡ Ok c → IsImage b o (Ok x) →
        x.exception_data ≡ Some v → length (functions (table_of v)) ≡ v.size / 12 }
    ensures image { (b old new : List ℕ)
        (x : ImageView) (h : OptionalHeaderView) (r : Result ℕ Error) →
        x.header.optional_header ≡ Some h → ReturnsWritten r (image_written b x old) old new →
        LeavesOverlay (image_pieces b x.header h x.sections x.certificates) r old new }
    ensures sections { (b old new : List ℕ)
        (sections : List SectionTable) (unit : Option ℕ) (offset : ℕ) (r : Result ℕ Error) →
        ReturnsWritten r (sections_written b sections unit offset old) old new →
        LeavesOverlay (all_section_pieces b unit offset sections) r old new }
    ensures certificates { (old new : List ℕ)
        (x : ImageView) (h : OptionalHeaderView) (r : Result ℕ Error) →
        x.header.optional_header ≡ Some h → ReturnsWritten r (certificates_written x old) old new →
        LeavesOverlay (all_certificate_pieces (certificate_directory h) x.certificates) r old new }
{
    pe_unwind::laws::x64::exception_data_are_of_their_bytes();
}

/// Permissive mode refuses an image exactly if its core is refused, and with the same refusal.
#[tactic(auto, using(crate::proofs::Permissive::refused_as_the_core))]
pub fn permissive_images_are_refused_as_their_core()
    ensures { (b : List ℕ) (o : ParseOptions) (r : Result ImageView Refusal) (e : Refusal) →
        o.parse_mode ≡ ParseMode.Permissive → IsImage b o r → (r ≡ Err e) ↔ (core_of b o ≡ Err e) }
{}

/// Each field of an image has the value of its own definition, and is empty if that is absent or refused, whatever the
/// other fields are.
#[tactic(auto, using(crate::proofs::Permissive::core_of_image, crate::proofs::Permissive::debug_alone, crate::proofs::Permissive::exceptions_alone, crate::proofs::Permissive::relocations_alone, crate::proofs::Permissive::certificates_alone, crate::proofs::Permissive::resources_alone))]
pub fn permissive_fields_are_their_own()
    ensures core { (b : List ℕ) (o : ParseOptions) (c : CoreView) (x : ImageView) →
        core_of b o ≡ Ok c → IsImage b o (Ok x) → core_part x ≡ c }
    ensures derived { (b : List ℕ) (o : ParseOptions) (c : CoreView) (x : ImageView) →
        core_of b o ≡ Ok c → IsImage b o (Ok x) → AreDerived c x }
    ensures debug { (b : List ℕ) (o : ParseOptions) (c : CoreView) (x : ImageView) →
        core_of b o ≡ Ok c → IsImage b o (Ok x) → x.debug_data ≡ given_value (debug_of b o c) }
    ensures exceptions { (b : List ℕ) (o : ParseOptions) (c : CoreView) (x : ImageView) →
        core_of b o ≡ Ok c →
        IsImage b o (Ok x) → x.exception_data ≡ given_value (exceptions_of b o c) }
    ensures relocations { (b : List ℕ) (o : ParseOptions) (c : CoreView) (x : ImageView) →
        core_of b o ≡ Ok c →
        IsImage b o (Ok x) → x.relocation_data ≡ given_value (relocations_of b o c) }
    ensures certificates { (b : List ℕ) (o : ParseOptions) (c : CoreView) (x : ImageView) →
        core_of b o ≡ Ok c →
        IsImage b o (Ok x) → x.certificates ≡ unwrap_or (given_value (certificates_of b o c)) [] }
    ensures resources { (b : List ℕ) (o : ParseOptions) (c : CoreView) (x : ImageView) →
        core_of b o ≡ Ok c → IsImage b o (Ok x) →
        (f : Field ResourceView) × AreResourcesOf b o c f × (x.resource_data ≡ given_value f) }
{}

/// The headers, the section headers and the certificates of an image are those that are read of its bytes, each by itself. So a
/// writer of these parts (`ImageWriter`) writes what `PE` writes.
#[tactic(auto, using(crate::proofs::ImageParts::header_is, crate::proofs::ImageParts::sections_are, crate::proofs::ImageParts::certificates_are))]
pub fn parts_to_write_are_those_of_images()
    ensures header { (b : List ℕ) (o : ParseOptions) (x : ImageView) →
        IsImage b o (Ok x) → header_at b o.parse_mode ≡ Ok x.header }
    ensures sections { (b : List ℕ) (o : ParseOptions) (x : ImageView) →
        IsImage b o (Ok x) → sections_of b x.header ≡ Ok x.sections }
    ensures certificates { (b : List ℕ) (o : ParseOptions) (x : ImageView) →
        IsImage b o (Ok x) → list_by_mode o.parse_mode
        (certificate_field b o x.header.optional_header) ≡ Ok x.certificates }
{}

/// If strict mode accepts an image, permissive mode with otherwise the same options returns the same image, and so the
/// same libraries (`equal_images_have_equal_libraries`).
pub fn strict_images_are_permissive()
    ensures { (b : List ℕ) (o : ParseOptions) (x : ImageView) →
        IsImage b (record o { parse_mode = ParseMode.Strict }) (Ok x) →
        IsImage b (record o { parse_mode = ParseMode.Permissive }) (Ok x) }
{
    pe_core::laws::strict_headers_are_permissive();
    pe_records::laws::debug::strict_debug_data_is_permissive();
    pe_resource::laws::resources::strict_resources_are_permissive();
}

/// For all bytes and options there is an image or a refusal, and there is only one.
pub fn images_are_one()
    ensures exists { (b : List ℕ) (o : ParseOptions) →
        (r : Result ImageView Refusal) × IsImage b o r }
    ensures one { (b : List ℕ) (o : ParseOptions) (r s : Result ImageView Refusal) →
        IsImage b o r → IsImage b o s → r ≡ s }
{
    pe_resource::laws::resources::resources_have_an_answer();
    pe_resource::laws::resources::resources_have_one_answer();
}

/// An import directory decides the names of its libraries: there is a list of them, and there is only one.
#[tactic(auto, using(crate::proofs::LibraryLists::some_list, crate::proofs::LibraryLists::one_list))]
pub fn libraries_are_one()
    ensures exists { (d : Option (List ImportRecordView)) →
        (libraries : List (List ℕ)) × AreLibrariesOf d libraries }
    ensures one { (d : Option (List ImportRecordView)) (xs ys : List (List ℕ)) →
        AreLibrariesOf d xs → AreLibrariesOf d ys → xs ≡ ys }
{}

/// Images with equal views, such as those of both modes, have the same libraries.
#[tactic(auto, using(crate::proofs::LibraryLists::same_libraries))]
pub fn equal_images_have_equal_libraries<Y, Z>()
    ensures { (p : PE Y) (q : PE Z) → image_view p ≡ image_view q →
        HasLibraries p → HasLibraries q → libraries_of p ≡ libraries_of q }
{}

/// The exception data of an image contains the bytes of the image, and maps RVAs with the file alignment of the image.
/// So lookup, links and records read these bytes.
pub fn exception_data_are_of_the_bytes()
    ensures content { (b : List ℕ)
        (o : ParseOptions) (c : CoreView) (x : ImageView) (v : ExceptionView) →
        core_of b o ≡ Ok c → IsImage b o (Ok x) → x.exception_data ≡ Some v → v.content ≡ b }
    ensures alignment { (b : List ℕ) (o : ParseOptions) (c : CoreView)
        (x : ImageView) (v : ExceptionView) → core_of b o ≡ Ok c → IsImage b o (Ok x) →
        x.exception_data ≡ Some v → v.alignment ≡ alignment c.header.optional_header }
{
    pe_unwind::laws::x64::exception_data_are_of_their_bytes();
}

/// Writing pieces one after the other leaves their overlay, if they all fit: each byte is that of the last piece that
/// covers its offset.
#[tactic(auto, using(crate::proofs::Overlays::overlay_in_turn))]
pub fn pieces_in_turn_are_their_overlay()
    ensures { (b : List ℕ) (pieces : List Piece) →
        all_fit (length b) pieces ≡ true → put_in_turn b pieces ≡ overlay b pieces }
{}

/// What `written_len` and `whole_len` return is how many bytes a buffer needs. One of this length or more is written, and a
/// shorter one is refused by `WriteFit`. Without such a length every buffer is refused, whatever its length, and by the
/// same error.
pub fn buffers_of_the_length_are_written()
    ensures image { (b old : List ℕ) (x : ImageView) (n : ℕ) → image_length b x ≡ Ok n →
        n ≤ length old → is_ok (image_written b x old) ≡ true }
    ensures image_short { (b old : List ℕ) (x : ImageView) (n : ℕ) → image_length b x ≡ Ok n →
        length old < n → image_written b x old ≡ Err WriteFit }
    ensures image_refused { (b old : List ℕ) (x : ImageView) (e : Refusal) →
        image_length b x ≡ Err e → length old ≤ longest → image_written b x old ≡ Err e }
    ensures whole { (b old : List ℕ) (x : ImageView) (n : ℕ) → whole_length b x ≡ Ok n →
        n ≤ length old → is_ok (whole_written b x old) ≡ true }
    ensures whole_short { (b old : List ℕ) (x : ImageView) (n : ℕ) → whole_length b x ≡ Ok n →
        length old < n → whole_written b x old ≡ Err WriteFit }
    ensures whole_refused { (b old : List ℕ) (x : ImageView) (e : Refusal) →
        whole_length b x ≡ Err e → length old ≤ longest → whole_written b x old ≡ Err e }
{}

/// Two sections clash exactly if they are not equal and share a byte of the file.
#[tactic(auto, using(crate::proofs::Clashes::clash_shares, crate::proofs::Clashes::clash_unequal, crate::proofs::Clashes::shares_clash))]
pub fn clashing_sections_share_a_byte()
    ensures shared { (s t : SectionTable) → clash s t ≡ true → SharesRawByte s t }
    ensures unequal { (s t : SectionTable) → clash s t ≡ true → s ≢ t }
    ensures clash { (s t : SectionTable) → SharesRawByte s t → s ≢ t → clash s t ≡ true }
{}

/// Certificates that are the unchanged listing of their table, at an offset that is a multiple of eight, are listed
/// again after a successful `write_certificates` into a buffer that contains the range of the table.
pub fn written_certificates_are_listed_again()
    ensures { (b old new : List ℕ) (x : ImageView) (d : DataDirectory) (n : ℕ) →
        HasCertificateDirectory x d → d.virtual_address % 8 ≡ 0 → AreBytes b →
        IsListing b d.virtual_address d.size x.certificates →
        d.virtual_address + d.size ≤ length old → certificates_written x old ≡ Ok (n, new) →
        IsListing new d.virtual_address d.size x.certificates }
{
    pe_records::laws::certificates::written_listings_are_listed_again();
}

/// Writing an image over a copy of its bytes changes a byte only if the last piece that covers it is one of zeros. Then
/// the byte becomes zero. If there are certificates, the offset of their directory has to be a multiple of eight.
#[tactic(auto, using(crate::proofs::RewrittenBytes::rewritten))]
pub fn rewritten_images_change_to_zeros_alone()
    ensures { (b new : List ℕ) (o : ParseOptions)
        (x : ImageView) (h : OptionalHeaderView) (n q : ℕ) → AreBytes b → IsImage b o (Ok x) →
        AreAligned x → x.header.optional_header ≡ Some h → image_written b x b ≡ Ok (n, new) →
        q < length b → (slice_index new q ≡ slice_index b q) ⊎ ((slice_index new q ≡ 0)
        × EndsInZeros (image_pieces b x.header h x.sections x.certificates) q) }
{}

/// Writing the whole file of an image whose fields are as they were read gives its bytes again, whatever was in the
/// buffer: each byte of it if the image has no certificates (`unsigned`). With certificates a byte changes only if the
/// last piece that covers it is one of zeros, which pads a certificate; then it becomes zero (`changes`).
#[tactic(auto, using(crate::proofs::RewrittenBytes::whole_changes, crate::proofs::RewrittenBytes::whole_unsigned))]
pub fn whole_images_come_back()
    ensures changes { (b old new : List ℕ) (o : ParseOptions)
        (x : ImageView) (h : OptionalHeaderView) (n q : ℕ) → AreBytes b → IsImage b o (Ok x) →
        AreAligned x → x.header.optional_header ≡ Some h → whole_written b x old ≡ Ok (n, new) →
        q < length b → (slice_index new q ≡ slice_index b q) ⊎ ((slice_index new q ≡ 0)
        × EndsInZeros (padded_pieces None b x.header h x.sections x.certificates) q) }
    ensures unsigned { (b old new : List ℕ)
        (o : ParseOptions) (x : ImageView) (h : OptionalHeaderView) (n q : ℕ) →
        AreBytes b → IsImage b o (Ok x) → x.certificates ≡ [] → x.header.optional_header ≡ Some h →
        whole_written b x old ≡ Ok (n, new) → q < length b → slice_index new q ≡ slice_index b q }
{}
