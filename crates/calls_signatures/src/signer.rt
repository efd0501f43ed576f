//! Signers of a signature, and their attributes ([RFC 5652](https://www.rfc-editor.org/rfc/rfc5652), 5.3 and 11). A verifier finds
//! the signer's certificate by issuer and serial number, compares the attribute `messageDigest` with the digest of what is signed,
//! and checks the signature over the signed attributes.

ghost use Rattle.std.specs.Prelude.{◌≡◌};
ghost use Rattle.pe_pkcs7.specs.declared.der.Element.{Element};
ghost use Rattle.calls_signatures.specs.SignatureParts.{after_tag, left_from};
ghost use Rattle.calls_signatures.specs.Signatures.{FindsInWalk, attribute_at, attribute_in, attribute_part, attribute_sought, certificate_of, opus_info_at, opus_info_in, signer_at, signer_in, signer_part, tag_of};

use crate::elements::{
    Algorithm, Oid, algorithm_at, content_range, last_before, oid_part, optional_content,
    whole_range,
};
use crate::refused::{Parsed, Read, element_in, up_to_range};
use calls_base::ranges::{NO_BYTES, Range};
use pe_pkcs7::{
    Attribute, Element, IssuerAndSerial, SignerInfo, SpcSpOpusInfo, attribute_number,
    find_attribute_at,
};

/// The tag of a `SET`.
const SET: u32 = 0x31;

/// The tag of a `SEQUENCE`.
const SEQUENCE: u8 = 0x30;

/// A signer. Ranges are of contents, but for `issuer` and `signed_rest`.
#[repr(C)]
#[derive(Clone, Copy)]
pub struct Signer {
    /// The version, an `INTEGER`.
    pub version: Range,
    /// All octets of the name of the issuer of the certificate; empty where the certificate is named by its key.
    pub issuer: Range,
    /// The serial number of the certificate; empty where it is named by its key.
    pub serial: Range,
    /// The subject key identifier of the certificate; empty where it is named by its issuer.
    pub key_identifier: Range,
    /// The algorithm of `messageDigest`, and of the digest that is signed.
    pub digest_algorithm: Algorithm,
    /// A walk over the signed attributes; empty without them.
    pub signed_attributes: Range,
    /// The octets of the signed attributes after their tag; empty without them.
    pub signed_rest: Range,
    /// The algorithm of the signature.
    pub signature_algorithm: Algorithm,
    /// The signature.
    pub signature: Range,
    /// A walk over the unsigned attributes; empty without them.
    pub unsigned_attributes: Range,
    /// 1 where there are signed attributes, else 0.
    pub has_signed_attributes: u32,
    /// The octet that is signed before `signed_rest`, the tag of a `SET`; 0 without signed attributes.
    pub signed_first: u32,
}

/// The octets of an element after its tag; the empty range without one.
fn after_tag(element: Option<Element>) -> Range
    ensures { result ≡ after_tag element }
{
    match element {
        Some(element) => last_before(
            element.end,
            element.end.saturating_sub(element.offset).saturating_sub(1),
        ),
        None => NO_BYTES,
    }
}

/// Issuer and serial number of a signer's certificate, if it is named by them. Errors: those of `IssuerAndSerial::parse`.
fn certificate_of(bytes: &[u8], signer: Element) -> Parsed<(Range, Range)>
    ensures { result ≡ certificate_of bytes.now signer }
{
    if signer.tag != SEQUENCE {
        return Ok((NO_BYTES, NO_BYTES));
    }
    let names = IssuerAndSerial::parse(bytes, signer)?;
    Ok((whole_range(names.issuer), content_range(names.serial)))
}

/// A signer as callers get it, with the names of its certificate and its algorithms.
fn signer_part(
    signer: SignerInfo,
    certificate: (Range, Range),
    digest_algorithm: Algorithm,
    signature_algorithm: Algorithm,
) -> Signer
    ensures { result ≡ signer_part signer certificate digest_algorithm signature_algorithm }
{
    let is_named_by_key = signer.signer.tag != SEQUENCE;
    let has_attributes = signer.signed_attributes.is_some();
    Signer {
        version: content_range(signer.version),
        issuer: certificate.0,
        serial: certificate.1,
        key_identifier: if is_named_by_key {
            content_range(signer.signer)
        } else {
            NO_BYTES
        },
        digest_algorithm,
        signed_attributes: optional_content(signer.signed_attributes),
        signed_rest: after_tag(signer.signed_attributes),
        signature_algorithm,
        signature: content_range(signer.signature),
        unsigned_attributes: optional_content(signer.unsigned_attributes),
        has_signed_attributes: u32::from(has_attributes),
        signed_first: if has_attributes { SET } else { 0 },
    }
}

/// The signer that an element is. Errors: those of `SignerInfo::parse`, `IssuerAndSerial::parse`, then of
/// `AlgorithmIdentifier::parse` of the digest and of the signature.
fn signer_at(bytes: &[u8], element: Element) -> Parsed<Signer>
    ensures { result ≡ signer_at bytes.now element }
{
    let signer = SignerInfo::parse(bytes, element)?;
    let certificate = certificate_of(bytes, signer.signer)?;
    let digest_algorithm = algorithm_at(bytes, signer.digest_algorithm)?;
    let signature_algorithm = algorithm_at(bytes, signer.signature_algorithm)?;
    Ok(signer_part(signer, certificate, digest_algorithm, signature_algorithm))
}

pub fn read_signer(bytes: &[u8], range: &Range) -> Read<Signer>
    ensures { result ≡ signer_in bytes.now range.now }
{
    let element = element_in(bytes, range)?;
    Ok(signer_at(bytes, element)?)
}

/// An attribute of a signer.
#[repr(C)]
#[derive(Clone, Copy)]
pub struct SignerAttribute {
    /// Of the group of attributes.
    pub kind: Oid,
    /// A walk over its values.
    pub values: Range,
}

/// An attribute as callers get it.
fn attribute_part(bytes: &[u8], attribute: Attribute) -> SignerAttribute
    ensures { result ≡ attribute_part bytes.now attribute }
{
    let Attribute { kind, values } = attribute;
    SignerAttribute {
        kind: oid_part(kind, attribute_number(kind.content_of(bytes))),
        values: content_range(values),
    }
}

/// The attribute that an element is. Errors: those of `Attribute::parse`.
fn attribute_at(bytes: &[u8], element: Element) -> Parsed<SignerAttribute>
    ensures { result ≡ attribute_at bytes.now element }
{
    let attribute = Attribute::parse(bytes, element)?;
    Ok(attribute_part(bytes, attribute))
}

pub fn read_attribute(bytes: &[u8], range: &Range) -> Read<SignerAttribute>
    ensures { result ≡ attribute_in bytes.now range.now }
{
    let element = element_in(bytes, range)?;
    Ok(attribute_at(bytes, element)?)
}

/// What a search returns.
fn attribute_sought(part: &[u8], found: Parsed<Option<Attribute>>) -> Read<Option<SignerAttribute>>
    ensures { result ≡ attribute_sought part.now found }
{
    match found? {
        Some(attribute) => Ok(Some(attribute_part(part, attribute))),
        None => Ok(None),
    }
}

/// What a walk has left from an offset on.
fn left_from(walk: &Range, offset: usize) -> Range
    ensures { result ≡ left_from walk.now offset }
{
    let offset = offset as u64;
    Range {
        offset,
        length: walk
            .length
            .saturating_sub(offset.saturating_sub(walk.offset)),
    }
}

/// The first attribute of a type in a walk, and what the walk has left.
pub fn find_attribute(
    bytes: &[u8],
    walk: &Range,
    number: u32,
) -> (Read<Option<SignerAttribute>>, Range)
    ensures { FindsInWalk bytes.now walk.now number result }
{
    match up_to_range(bytes, walk) {
        Ok(part) => {
            let (found, next) = find_attribute_at(part, walk.offset as usize, number);
            (attribute_sought(part, found), left_from(walk, next))
        }
        Err(failure) => (Err(failure), NO_BYTES),
    }
}

/// What a signer says of the program.
#[repr(C)]
#[derive(Clone, Copy)]
pub struct OpusInfo {
    /// The name of the program; empty without one.
    pub program_name: Range,
    /// Where more is said; empty without it.
    pub more_info: Range,
    /// The tag of the name; 0 without one.
    pub program_name_tag: u32,
    /// The tag of what says more; 0 without it.
    pub more_info_tag: u32,
}

/// The tag of an element; 0 without one.
fn tag_of(element: Option<Element>) -> u32
    ensures { result ≡ tag_of element }
{
    match element {
        Some(element) => u32::from(element.tag),
        None => 0,
    }
}

/// What a signer says of the program, as an element has it. Errors: those of `SpcSpOpusInfo::parse`.
fn opus_info_at(bytes: &[u8], element: Element) -> Parsed<OpusInfo>
    ensures { result ≡ opus_info_at bytes.now element }
{
    let SpcSpOpusInfo {
        program_name,
        more_info,
    } = SpcSpOpusInfo::parse(bytes, element)?;
    Ok(OpusInfo {
        program_name: optional_content(program_name),
        more_info: optional_content(more_info),
        program_name_tag: tag_of(program_name),
        more_info_tag: tag_of(more_info),
    })
}

pub fn read_opus_info(bytes: &[u8], range: &Range) -> Read<OpusInfo>
    ensures { result ≡ opus_info_in bytes.now range.now }
{
    let element = element_in(bytes, range)?;
    Ok(opus_info_at(bytes, element)?)
}
