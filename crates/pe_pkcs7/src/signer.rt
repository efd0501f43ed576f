//! The signers of signed data ([RFC 5652](https://www.rfc-editor.org/rfc/rfc5652), 5.3), and their attributes. A signer names
//! its certificate by issuer and serial number; its signature is over the signed attributes, one of which is the digest of
//! what is signed. A time stamp is an unsigned attribute: a counter-signature, which is a signer again, or a token (RFC 3161),
//! which is a `ContentInfo`; so is a nested signature.

ghost use Rattle.std.specs.Prelude.{◌≡◌, ◌∷◌};
ghost use Rattle.std.specs.Option.{option_map};
ghost use Rattle.pe_pkcs7.specs.Signers.{FindsAttribute, signer_identifier, signer_info, issuer_and_serial, attribute, signed_octets};

use crate::der::{Element, element_at};
use crate::error::{Result, SignatureError};
use crate::fields::{after, any_field, field, optional, part_of, require_end};
use crate::object_ids::attribute_number;
use crate::tags::{
    INTEGER, OBJECT_IDENTIFIER, OCTET_STRING, SEQUENCE, SET, TAGGED_0, TAGGED_1, TAGGED_STRING_0,
};

/// A signer of signed data, or a counter-signature: the value of the unsigned attribute 1.2.840.113549.1.9.6.
#[derive(Clone, Copy)]
pub struct SignerInfo {
    /// The version, an `INTEGER`: 1 where `signer` is an issuer and a serial number.
    pub version: Element,
    /// Whose signature it is: an `IssuerAndSerial`, or by `[0]` a subject key identifier.
    pub signer: Element,
    /// The algorithm of `messageDigest`, and of the digest that is signed; an `AlgorithmIdentifier`.
    pub digest_algorithm: Element,
    /// The signed attributes: a `SET OF Attribute` by `[0]`.
    pub signed_attributes: Option<Element>,
    /// The algorithm of the signature, an `AlgorithmIdentifier`.
    pub signature_algorithm: Element,
    /// The signature, an `OCTET STRING`.
    pub signature: Element,
    /// The unsigned attributes: a `SET OF Attribute` by `[1]`.
    pub unsigned_attributes: Option<Element>,
}

/// Whose signature it is. Errors, in order: `Missing`, those of `element_at`, `Tag`.
#[tactic(auto, unfolding(crate::specs::Signers::signer_identifier))]
fn signer_identifier(part: &[u8], offset: usize) -> Result<Element>
    ensures { result ≡ signer_identifier part.now offset }
{
    let signer = any_field(part, offset)?;
    if signer.tag != SEQUENCE && signer.tag != TAGGED_STRING_0 {
        return Err(SignatureError::Tag {
            offset: signer.offset,
            expected: SEQUENCE,
            found: signer.tag,
        });
    }
    Ok(signer)
}

impl SignerInfo {
    /// The signer that an element is: one of `SignedData::signers`, or the value of an attribute. Errors, in order: `Tag` if
    /// it is no `SEQUENCE`; for each field `Missing`, those of `element_at`, `Tag`; `Trailing`.
    #[tactic(auto, unfolding(crate::specs::Signers::signer_info))]
    pub fn parse(bytes: &[u8], element: Element) -> Result<SignerInfo>
        ensures { result ≡ signer_info bytes.now element }
    {
        let part = part_of(bytes, element, SEQUENCE)?;
        let version = field(part, element.content, INTEGER)?;
        let signer = signer_identifier(part, version.end)?;
        let digest_algorithm = field(part, signer.end, SEQUENCE)?;
        let signed_attributes = optional(part, digest_algorithm.end, TAGGED_0)?;
        let offset = after(digest_algorithm.end, signed_attributes);
        let signature_algorithm = field(part, offset, SEQUENCE)?;
        let signature = field(part, signature_algorithm.end, OCTET_STRING)?;
        let unsigned_attributes = optional(part, signature.end, TAGGED_1)?;
        require_end(part, after(signature.end, unsigned_attributes))?;
        Ok(SignerInfo {
            version,
            signer,
            digest_algorithm,
            signed_attributes,
            signature_algorithm,
            signature,
            unsigned_attributes,
        })
    }
}

impl SignerInfo {
    /// What the signature is over if there are signed attributes, in two pieces: the octet 31h, the tag of a `SET` in place of
    /// `[0]`, and the other octets of the attributes as they stand (RFC 5652, 5.4); that they are sorted, as DER sorts a
    /// `SET OF`, is not tested. `None` if there are none: it is over what is signed.
    pub fn signed_bytes<'a>(&self, bytes: &'a [u8]) -> Option<(u8, &'a [u8])>
        ensures { option_map (λ s. s.0 ∷ s.1.now) result
            ≡ option_map (signed_octets bytes.entry.now) self.now.signed_attributes }
    {
        match self.signed_attributes {
            Some(attributes) => Some((SET, attributes.bytes_after_tag(bytes))),
            None => None,
        }
    }
}

/// The certificate of a signer: its issuer and its serial number.
#[derive(Clone, Copy)]
pub struct IssuerAndSerial {
    /// The issuer, a name.
    pub issuer: Element,
    /// The serial number, an `INTEGER`.
    pub serial: Element,
}

impl IssuerAndSerial {
    /// What `SignerInfo::signer` says, if it is a `SEQUENCE`. Errors: as `SignerInfo::parse`.
    #[tactic(auto, unfolding(crate::specs::Signers::issuer_and_serial))]
    pub fn parse(bytes: &[u8], element: Element) -> Result<IssuerAndSerial>
        ensures { result ≡ issuer_and_serial bytes.now element }
    {
        let part = part_of(bytes, element, SEQUENCE)?;
        let issuer = field(part, element.content, SEQUENCE)?;
        let serial = field(part, issuer.end, INTEGER)?;
        require_end(part, serial.end)?;
        Ok(IssuerAndSerial { issuer, serial })
    }
}

/// An attribute of a signer.
#[derive(Clone, Copy)]
pub struct Attribute {
    /// The object identifier of its kind.
    pub kind: Element,
    /// Its values, a `SET OF`; most kinds have one.
    pub values: Element,
}

impl Attribute {
    /// The attribute that an element is: one in `signed_attributes` or `unsigned_attributes`. Errors: as
    /// `SignerInfo::parse`.
    #[tactic(auto, unfolding(crate::specs::Signers::attribute))]
    pub fn parse(bytes: &[u8], element: Element) -> Result<Attribute>
        ensures { result ≡ attribute bytes.now element }
    {
        let part = part_of(bytes, element, SEQUENCE)?;
        let kind = field(part, element.content, OBJECT_IDENTIFIER)?;
        let values = field(part, kind.end, SET)?;
        require_end(part, values.end)?;
        Ok(Attribute { kind, values })
    }
}

/// The next attribute of a type among those from `offset` on: of `signed_attributes` or `unsigned_attributes`, whose bytes up to
/// their end are `part`. `number` is that of the type, as `attribute_number` has it. `None` without one. With it comes the offset
/// where a search for the next one starts: after the attribute; after one that is refused; at the end.
///
/// Errors of what stands before it: those of `element_at`, after which nothing is left; those of `Attribute::parse`.
pub fn find_attribute_at(
    part: &[u8],
    offset: usize,
    number: u32,
) -> (Result<Option<Attribute>>, usize)
    ensures { FindsAttribute part.now number offset result }
{
    let mut next = offset;
    while next < part.len() {
        let element = match element_at(part, next) {
            Ok(element) => element,
            Err(error) => return (Err(error), part.len()),
        };
        next = element.end;
        match Attribute::parse(part, element) {
            Ok(attribute) if attribute_number(attribute.kind.content_of(part)) == number => {
                return (Ok(Some(attribute)), next);
            }
            Ok(_) => {}
            Err(error) => return (Err(error), next),
        }
    }
    (Ok(None), next)
}
