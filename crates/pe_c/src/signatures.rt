//! Calls on signatures: elements, attributes and names, over calls_signatures.

ghost use Rattle.std.specs.Prelude.{List, Result, ◌≡◌};
ghost use Rattle.calls_signatures.specs.NameWalks.{name_after, name_reported, next_name_attribute};
ghost use Rattle.calls_signatures.specs.SignatureParts.{SignatureHandsOutIf, element_reported, elements_after, left_place, next_element};
ghost use Rattle.calls_signatures.specs.Signatures.{attribute_with_number};
ghost use Rattle.pe_pkcs7.specs.Fields.{first_element};
ghost use Rattle.pe_pkcs7.specs.Walks.{Items};
ghost use Rattle.pe_pkcs7.specs.declared.der.Element.{Element};
ghost use Rattle.pe_pkcs7.specs.declared.error.SignatureError.{SignatureError};
ghost use Rattle.pe_c.specs.AnyParts.{any_part};

use calls_base::ranges::Range;
use calls_base::results::NOTHING;
use calls_signatures::elements::{
    Algorithm, DerElement, element_reported, elements_after, next_element, read_algorithm,
};
use calls_signatures::name::{
    NamePart, NameWalk, name_after, name_reported, next_name_attribute, read_name,
};
use calls_signatures::refused::{SignatureFailure, hand_out_part, hand_out_part_if};
use calls_signatures::signature::{
    SignedData, SpcIndirectDataContent, SpcPeImageDataContent, read_image_data, read_indirect_data,
    read_signature,
};
use calls_signatures::signer::{
    OpusInfo, Signer, SignerAttribute, find_attribute, read_attribute, read_opus_info, read_signer,
};
use calls_signatures::time::{TimeStamp, UtcTime, read_time, read_time_stamp};
use calls_signatures::x509::{X509, X509Extension, read_extension, read_key_usage, read_x509};
use pe_pkcs7::Element;

/// Steps through elements: returns the next one, and moves `walk` past it. `NOTHING` where no bytes are left.
///
/// Errors, after which the walk is over: `SHORT` where `walk` is not inside the bytes; those of an element.
#[unsafe(no_mangle)]
pub extern "C" fn pe_c_next_element(
    bytes: &[u8],
    walk: &mut Range,
    failure: &mut SignatureFailure,
    out: &mut DerElement,
) -> u32
    ensures element { SignatureHandsOutIf result failure.old failure.new out.old out.new
        (element_reported (next_element bytes.now walk.old)) }
    ensures walk { walk.new ≡ elements_after walk.old (next_element bytes.now walk.old) }
{
    let step = next_element(bytes, walk);
    *walk = elements_after(*walk, step);
    hand_out_part_if(element_reported(step), failure, out)
}

/// Steps through the attributes of a name: returns the next one, and moves `walk` past it. `NOTHING` after the last.
///
/// Errors, after which the walk is over: `SHORT` where `walk` is not inside the bytes; those of `NameAttributes`.
#[unsafe(no_mangle)]
pub extern "C" fn pe_c_next_name_attribute(
    bytes: &[u8],
    walk: &mut NameWalk,
    failure: &mut SignatureFailure,
    out: &mut NamePart,
) -> u32
    ensures attribute { SignatureHandsOutIf result failure.old failure.new out.old out.new
        (name_reported bytes.now (next_name_attribute bytes.now walk.old)) }
    ensures walk { walk.new ≡ name_after walk.old (next_name_attribute bytes.now walk.old) }
{
    let step = next_name_attribute(bytes, walk);
    *walk = name_after(*walk, step);
    hand_out_part_if(name_reported(bytes, step), failure, out)
}

/// Returns the next attribute of a type in a walk, and moves `walk` past it. `NOTHING`, which ends the walk, where there is none.
///
/// Errors, in order: `SHORT` where `walk` is not inside the bytes; of the first attribute in it that has the type or is refused,
/// those of an element, after which the walk is over; those of `Attribute::parse`, after which it is past the attribute.
#[unsafe(no_mangle)]
pub extern "C" fn pe_c_find_attribute(
    bytes: &[u8],
    walk: &mut Range,
    id: u32,
    failure: &mut SignatureFailure,
    out: &mut SignerAttribute,
) -> u32
    ensures attribute { (items : List (Result Element SignatureError)) →
        Items first_element (left_place bytes.now walk.old) items →
        SignatureHandsOutIf result failure.old failure.new out.old out.new
        (attribute_with_number bytes.now walk.old id items).0 }
    ensures walk { (items : List (Result Element SignatureError)) →
        Items first_element (left_place bytes.now walk.old) items →
        walk.new ≡ (attribute_with_number bytes.now walk.old id items).1 }
{
    let (found, left) = find_attribute(bytes, walk, id);
    *walk = left;
    hand_out_part_if(found, failure, out)
}

/// A signature.
pub const PART_SIGNATURE: u32 = 1;
/// An algorithm.
pub const PART_ALGORITHM: u32 = 2;
/// What Authenticode signs.
pub const PART_INDIRECT_DATA: u32 = 3;
/// What a signature says of an image as a file.
pub const PART_IMAGE_DATA: u32 = 4;
/// A signer.
pub const PART_SIGNER: u32 = 5;
/// An attribute of a signer.
pub const PART_ATTRIBUTE: u32 = 6;
/// What a signer says of the program.
pub const PART_OPUS_INFO: u32 = 7;
/// A certificate.
pub const PART_X509: u32 = 8;
/// An extension of a certificate.
pub const PART_EXTENSION: u32 = 9;
/// What a key is for, by an extension.
pub const PART_KEY_USAGE: u32 = 10;
/// A walk over the attributes of a name.
pub const PART_NAME: u32 = 11;
/// A time.
pub const PART_TIME: u32 = 12;
/// What a time-stamp token says.
pub const PART_TIME_STAMP: u32 = 13;

/// A part of any kind: a call writes the field of its kind alone.
#[repr(C)]
#[derive(Clone, Copy)]
pub struct AnyPart {
    /// `PART_SIGNATURE`.
    pub signature: SignedData,
    /// `PART_ALGORITHM`.
    pub algorithm: Algorithm,
    /// `PART_INDIRECT_DATA`.
    pub indirect_data: SpcIndirectDataContent,
    /// `PART_IMAGE_DATA`.
    pub image_data: SpcPeImageDataContent,
    /// `PART_SIGNER`.
    pub signer: Signer,
    /// `PART_ATTRIBUTE`.
    pub attribute: SignerAttribute,
    /// `PART_OPUS_INFO`.
    pub opus_info: OpusInfo,
    /// `PART_X509`.
    pub x509: X509,
    /// `PART_EXTENSION`.
    pub extension: X509Extension,
    /// `PART_NAME`.
    pub name: NameWalk,
    /// `PART_TIME`.
    pub time: UtcTime,
    /// `PART_TIME_STAMP`.
    pub time_stamp: TimeStamp,
    /// `PART_KEY_USAGE`.
    pub key_usage: u32,
    /// It is never written.
    pub spare: u32,
}

/// Reads the part of a signature that a range starts with, as one of a kind, `PART_SIGNATURE` and others, into the field of the kind
/// alone. `NOTHING` of another kind, and of a key's usage where its bits are none, more than two octets, or not as DER has them.
///
/// The range of a signature is the body of a certificate entry, or the value of an attribute that is a time stamp or a nested
/// signature; of what Authenticode signs and of a time-stamp token it is the content of a signature, of a key's usage its extension.
///
/// Errors, in order: `SHORT` where the range is not inside the bytes; those of an element; then those of `parse` of what is read, in
/// pe_pkcs7: of a signature `ContentInfo::of`, `SignedData`, `EncapsulatedContent`; of what Authenticode signs `SpcIndirectData`,
/// `TypeAndValue`, `DigestInfo`, `AlgorithmIdentifier`; of a signer `SignerInfo`, `IssuerAndSerial`, `AlgorithmIdentifier` twice; of a
/// certificate `Certificate`, `ToBeSigned`, `Validity`, `AlgorithmIdentifier`; of a token `TstInfo`, `DigestInfo`,
/// `AlgorithmIdentifier`; of a name `SIGNATURE_TAG`; of a time `SIGNATURE_BAD_TIME`; of the others those of the type of their name.
#[unsafe(no_mangle)]
pub extern "C" fn pe_c_signature_part(
    bytes: &[u8],
    range: &Range,
    kind: u32,
    failure: &mut SignatureFailure,
    out: &mut AnyPart,
) -> u32
    ensures { SignatureHandsOutIf result failure.old failure.new out.old out.new
        (any_part kind bytes.now range.now out.old) }
{
    let (b, r, f) = (bytes, range, failure);
    match kind {
        PART_SIGNATURE => hand_out_part(read_signature(b, r), f, &mut out.signature),
        PART_ALGORITHM => hand_out_part(read_algorithm(b, r), f, &mut out.algorithm),
        PART_INDIRECT_DATA => hand_out_part(read_indirect_data(b, r), f, &mut out.indirect_data),
        PART_IMAGE_DATA => hand_out_part(read_image_data(b, r), f, &mut out.image_data),
        PART_SIGNER => hand_out_part(read_signer(b, r), f, &mut out.signer),
        PART_ATTRIBUTE => hand_out_part(read_attribute(b, r), f, &mut out.attribute),
        PART_OPUS_INFO => hand_out_part(read_opus_info(b, r), f, &mut out.opus_info),
        PART_X509 => hand_out_part(read_x509(b, r), f, &mut out.x509),
        PART_EXTENSION => hand_out_part(read_extension(b, r), f, &mut out.extension),
        PART_KEY_USAGE => hand_out_part_if(read_key_usage(b, r), f, &mut out.key_usage),
        PART_NAME => hand_out_part(read_name(b, r), f, &mut out.name),
        PART_TIME => hand_out_part(read_time(b, r), f, &mut out.time),
        PART_TIME_STAMP => hand_out_part(read_time_stamp(b, r), f, &mut out.time_stamp),
        _ => NOTHING,
    }
}
