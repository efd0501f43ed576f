//! Laws of signatures: a walk through a range of the caller's bytes is that of DER, and the functions of `pe.h` read parts of their kinds.

ghost use Rattle.std.specs.Prelude.{◌≡◌, ◌+◌, ◌≤◌, ℕ, List, length, map, Result};
ghost use Rattle.pe_pkcs7.specs.Fields.{first_element};
ghost use Rattle.pe_pkcs7.specs.Walks.{Items};
ghost use Rattle.pe_pkcs7.specs.declared.der.Element.{Element};
ghost use Rattle.pe_pkcs7.specs.declared.error.SignatureError.{SignatureError};
ghost use Rattle.calls_base.specs.Runs.{ReturnsItems};
ghost use Rattle.calls_signatures.specs.NameWalks.{name_in};
ghost use Rattle.calls_signatures.specs.SignatureParts.{StepsElements, algorithm_in, left_place, parsed};
ghost use Rattle.calls_signatures.specs.Signatures.{attribute_in, image_data_in, indirect_data_in, opus_info_in, signature_in, signer_in, time_in, time_stamp_in};
ghost use Rattle.calls_signatures.specs.X509.{extension_in, key_usage_in, x509_in};
ghost use Rattle.pe_c.specs.declared.signatures.TheConstants.{PART_ALGORITHM, PART_ATTRIBUTE, PART_EXTENSION, PART_IMAGE_DATA, PART_INDIRECT_DATA, PART_KEY_USAGE, PART_NAME, PART_OPUS_INFO, PART_SIGNATURE, PART_SIGNER, PART_TIME, PART_TIME_STAMP, PART_X509};
ghost use Rattle.pe_c.specs.AnyParts.{ReadsField, ReadsFieldIf};
ghost use Rattle.calls_base.specs.declared.ranges.Range.{Range};

/// A walk over a range that lies in the bytes returns, one a step and in their order, exactly the elements that pe_pkcs7 walks
/// through in the bytes up to the end of the range; where one of them is refused, it returns those before it, then its failure, and
/// then nothing. By `walks_return_the_list` of pe_pkcs7 there is one list of them.
#[tactic(auto, using(calls_signatures::proofs::SignatureRuns::in_turn))]
pub fn walks_give_the_elements()
    ensures { (b : List ℕ) (walk : Range) (items : List (Result Element SignatureError)) →
        walk.offset + walk.length ≤ length b → Items first_element (left_place b walk) items →
        ReturnsItems (StepsElements b) walk (map parsed items) }
{}

/// The functions of `pe.h` that return the field of a kind of what `pe_c_signature_part` writes return the part of that kind, and no
/// more, as `pe_c_signer` does.
pub fn parts_are_those_of_their_kinds()
    ensures signatures { ReadsField PART_SIGNATURE (λ a. a.signature) signature_in }
    ensures algorithms { ReadsField PART_ALGORITHM (λ a. a.algorithm) algorithm_in }
    ensures indirect_data { ReadsField PART_INDIRECT_DATA (λ a. a.indirect_data) indirect_data_in }
    ensures image_data { ReadsField PART_IMAGE_DATA (λ a. a.image_data) image_data_in }
    ensures signers { ReadsField PART_SIGNER (λ a. a.signer) signer_in }
    ensures attributes { ReadsField PART_ATTRIBUTE (λ a. a.attribute) attribute_in }
    ensures opus_infos { ReadsField PART_OPUS_INFO (λ a. a.opus_info) opus_info_in }
    ensures certificates { ReadsField PART_X509 (λ a. a.x509) x509_in }
    ensures extensions { ReadsField PART_EXTENSION (λ a. a.extension) extension_in }
    ensures key_usages { ReadsFieldIf PART_KEY_USAGE (λ a. a.key_usage) key_usage_in }
    ensures names { ReadsField PART_NAME (λ a. a.name) name_in }
    ensures times { ReadsField PART_TIME (λ a. a.time) time_in }
    ensures time_stamps { ReadsField PART_TIME_STAMP (λ a. a.time_stamp) time_stamp_in }
{}
