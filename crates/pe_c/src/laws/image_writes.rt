//! The law of written images: what the calls write of an image as it was read is what the writers of `PE` write.

ghost use Rattle.std.specs.Prelude.{◌≡◌, ℕ, List, Ok, true};
ghost use Rattle.pe_core.specs.declared.options.ParseOptions.{ParseOptions};
ghost use Rattle.pe_image.specs.Image.{ImageView, IsImage};
ghost use Rattle.pe_image.specs.Writing.{certificates_written, image_length, image_written, whole_length, whole_written};
ghost use Rattle.pe_c.specs.ImageOfCalls.{mode_of};
ghost use Rattle.calls_write.specs.ImageWrites.{IsViewOf, certificates_written_at, image_length_at, image_written_at, whole_length_at, whole_written_at};
ghost use Rattle.calls_base.specs.declared.view.View.{View};

/// Where `PE::parse_with_opts` of pe_image returns an image with its certificates, and a view has what `pe_c_image` and
/// `pe_c_sections` return of the same bytes in the same mode, `pe_c_write_certificates`, `pe_c_write_image` and `pe_c_write_whole`
/// write what `PE::write_certificates`, `write_into` and `write_whole` of that image write, with the same number or error; and the last
/// two need the lengths that `PE::written_len` and `whole_len` return.
#[tactic(auto, using(crate::proofs::ImageWriters::certificates_is, crate::proofs::ImageWriters::image_is, crate::proofs::ImageWriters::image_length_is, crate::proofs::ImageWriters::whole_is, crate::proofs::ImageWriters::whole_length_is))]
pub fn images_are_written_as_by_pe()
    ensures certificates { (b old : List ℕ) (o : ParseOptions) (x : ImageView) (v : View) →
        o.parse_attribute_certificates ≡ true → IsImage b o (Ok x) → IsViewOf b (mode_of o) v →
        certificates_written_at v old ≡ certificates_written x old }
    ensures image { (b old : List ℕ) (o : ParseOptions) (x : ImageView) (v : View) →
        o.parse_attribute_certificates ≡ true → IsImage b o (Ok x) → IsViewOf b (mode_of o) v →
        image_written_at v old ≡ image_written b x old }
    ensures whole { (b old : List ℕ) (o : ParseOptions) (x : ImageView) (v : View) →
        o.parse_attribute_certificates ≡ true → IsImage b o (Ok x) → IsViewOf b (mode_of o) v →
        whole_written_at v old ≡ whole_written b x old }
    ensures image_length { (b : List ℕ) (o : ParseOptions) (x : ImageView) (v : View) →
        o.parse_attribute_certificates ≡ true → IsImage b o (Ok x) → IsViewOf b (mode_of o) v →
        image_length_at v ≡ image_length b x }
    ensures whole_length { (b : List ℕ) (o : ParseOptions) (x : ImageView) (v : View) →
        o.parse_attribute_certificates ≡ true → IsImage b o (Ok x) → IsViewOf b (mode_of o) v →
        whole_length_at v ≡ whole_length b x }
{
    pe_image::laws::parts_to_write_are_those_of_images();
}
