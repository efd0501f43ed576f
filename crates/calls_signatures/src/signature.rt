//! A signature: what is signed, the certificates, the signers ([RFC 5652](https://www.rfc-editor.org/rfc/rfc5652), 3 and 5), and
//! what Authenticode signs of an image, by Microsoft's "Windows Authenticode Portable Executable Signature Format".

ghost use Rattle.std.specs.Prelude.{◌≡◌};
ghost use Rattle.calls_signatures.specs.Signatures.{image_data_at, image_data_in, indirect_data_at, indirect_data_in, signature_at, signature_in, signed_data_part};

use crate::elements::{
    Algorithm, Oid, algorithm_at, content_range, oid_part, optional_content, optional_whole,
};
use crate::refused::{Parsed, Read, element_in};
use calls_base::ranges::Range;
use pe_pkcs7::{
    ContentInfo, DigestInfo, Element, EncapsulatedContent, SpcIndirectData, SpcPeImageData,
    TypeAndValue, content_type_number,
};

/// A signature. Ranges are of contents, but for `content`.
#[repr(C)]
#[derive(Clone, Copy)]
pub struct SignedData {
    /// The type of what is signed, of the group of content types.
    pub content_type: Oid,
    /// The version, an `INTEGER`.
    pub version: Range,
    /// A walk over the digest algorithms of all signers.
    pub digest_algorithms: Range,
    /// All octets of what is signed; empty where it is detached.
    pub content: Range,
    /// The content of what is signed, which `messageDigest` is the digest of.
    pub digested: Range,
    /// A walk over the certificates; empty without them.
    pub certificates: Range,
    /// A walk over the certificate revocation lists; empty without them.
    pub crls: Range,
    /// A walk over the signers.
    pub signers: Range,
    /// 1 where what is signed is there, 0 where it is detached.
    pub has_content: u32,
    /// 0.
    pub spare: u32,
}

/// What signed data and their content say, as callers get it.
fn signed_data_part(
    bytes: &[u8],
    signed: pe_pkcs7::SignedData,
    encapsulated: EncapsulatedContent,
) -> SignedData
    ensures { result ≡ signed_data_part bytes.now signed encapsulated }
{
    let EncapsulatedContent {
        content_type,
        content,
    } = encapsulated;
    SignedData {
        content_type: oid_part(
            content_type,
            content_type_number(content_type.content_of(bytes)),
        ),
        version: content_range(signed.version),
        digest_algorithms: content_range(signed.digest_algorithms),
        content: optional_whole(content),
        digested: optional_content(content),
        certificates: optional_content(signed.certificates),
        crls: optional_content(signed.crls),
        signers: content_range(signed.signers),
        has_content: u32::from(content.is_some()),
        spare: 0,
    }
}

/// The signature that an element is. Errors: those of `ContentInfo::of`, `SignedData::parse`, `EncapsulatedContent::parse`.
fn signature_at(bytes: &[u8], element: Element) -> Parsed<SignedData>
    ensures { result ≡ signature_at bytes.now element }
{
    let info = ContentInfo::of(bytes, element)?;
    let signed = pe_pkcs7::SignedData::parse(bytes, &info)?;
    let encapsulated = EncapsulatedContent::parse(bytes, signed.encapsulated)?;
    Ok(signed_data_part(bytes, signed, encapsulated))
}

pub fn read_signature(bytes: &[u8], range: &Range) -> Read<SignedData>
    ensures { result ≡ signature_in bytes.now range.now }
{
    let element = element_in(bytes, range)?;
    Ok(signature_at(bytes, element)?)
}

/// What Authenticode signs.
#[repr(C)]
#[derive(Clone, Copy)]
pub struct SpcIndirectDataContent {
    /// What is signed, of the group of content types.
    pub value_type: Oid,
    /// All octets of what that type has; empty without them.
    pub value: Range,
    /// The algorithm of the digest.
    pub digest_algorithm: Algorithm,
    /// The digest.
    pub digest: Range,
}

/// What Authenticode signs, as an element says. Errors: those of `SpcIndirectData::parse`, then of `TypeAndValue::parse`,
/// `DigestInfo::parse` and `AlgorithmIdentifier::parse`.
fn indirect_data_at(bytes: &[u8], element: Element) -> Parsed<SpcIndirectDataContent>
    ensures { result ≡ indirect_data_at bytes.now element }
{
    let data = SpcIndirectData::parse(bytes, element)?;
    let signed = TypeAndValue::parse(bytes, data.signed)?;
    let digest = DigestInfo::parse(bytes, data.message_digest)?;
    let algorithm = algorithm_at(bytes, digest.algorithm)?;
    Ok(SpcIndirectDataContent {
        value_type: oid_part(
            signed.value_type,
            content_type_number(signed.value_type.content_of(bytes)),
        ),
        value: optional_whole(signed.value),
        digest_algorithm: algorithm,
        digest: content_range(digest.digest),
    })
}

pub fn read_indirect_data(bytes: &[u8], range: &Range) -> Read<SpcIndirectDataContent>
    ensures { result ≡ indirect_data_in bytes.now range.now }
{
    let element = element_in(bytes, range)?;
    Ok(indirect_data_at(bytes, element)?)
}

/// What a signature says of an image as a file.
#[repr(C)]
#[derive(Clone, Copy)]
pub struct SpcPeImageDataContent {
    /// The content of a `BIT STRING`; empty without it.
    pub flags: Range,
    /// All octets of the link; empty without it.
    pub file: Range,
}

/// The same of an element. Errors: those of `SpcPeImageData::parse`.
fn image_data_at(bytes: &[u8], element: Element) -> Parsed<SpcPeImageDataContent>
    ensures { result ≡ image_data_at bytes.now element }
{
    let data = SpcPeImageData::parse(bytes, element)?;
    Ok(SpcPeImageDataContent {
        flags: optional_content(data.flags),
        file: optional_whole(data.file),
    })
}

pub fn read_image_data(bytes: &[u8], range: &Range) -> Read<SpcPeImageDataContent>
    ensures { result ≡ image_data_in bytes.now range.now }
{
    let element = element_in(bytes, range)?;
    Ok(image_data_at(bytes, element)?)
}
