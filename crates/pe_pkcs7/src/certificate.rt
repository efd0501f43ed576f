//! X.509 certificates ([RFC 5280](https://www.rfc-editor.org/rfc/rfc5280), 4.1): whose key it is, by whose word, and when it is
//! valid. The issuer's signature is over the bytes of `Certificate::to_be_signed`, its tag and length included.

ghost use Rattle.std.specs.Prelude.{◌≡◌};
ghost use Rattle.pe_pkcs7.specs.Fields.{element_bytes};
ghost use Rattle.pe_pkcs7.specs.Certificates.{certificate, subject_fields, to_be_signed, time_field, validity, extension, unused_are_zero, usage_bits, key_usage};

use crate::der::Element;
use crate::error::{Result, SignatureError};
use crate::fields::{
    after, any_field, field, only_element, only_with_tag, optional, part_of, require_end,
    require_tag,
};
use crate::tags::{
    BIT_STRING, BOOLEAN, GENERALIZED_TIME, INTEGER, OBJECT_IDENTIFIER, OCTET_STRING, SEQUENCE,
    TAGGED_0, TAGGED_3, TAGGED_STRING_1, TAGGED_STRING_2, UTC_TIME,
};

/// A certificate.
#[derive(Clone, Copy)]
pub struct Certificate {
    /// What is signed, a `ToBeSigned`: the signature is over all of its bytes, from its `offset` to its `end`.
    pub to_be_signed: Element,
    /// The algorithm of the signature, an `AlgorithmIdentifier`.
    pub signature_algorithm: Element,
    /// The signature, a `BIT STRING`: the first octet of its content is 0, the signature is after it.
    pub signature: Element,
}

impl Certificate {
    /// The certificate that an element is: one of `SignedData::certificates`. Errors, in order: `Tag` if it is no `SEQUENCE`;
    /// for each field `Missing`, those of `element_at`, `Tag`; `Trailing`.
    #[tactic(auto, unfolding(crate::specs::Certificates::certificate))]
    pub fn parse(bytes: &[u8], element: Element) -> Result<Certificate>
        ensures { result ≡ certificate bytes.now element }
    {
        let part = part_of(bytes, element, SEQUENCE)?;
        let to_be_signed = field(part, element.content, SEQUENCE)?;
        let signature_algorithm = field(part, to_be_signed.end, SEQUENCE)?;
        let signature = field(part, signature_algorithm.end, BIT_STRING)?;
        require_end(part, signature.end)?;
        Ok(Certificate {
            to_be_signed,
            signature_algorithm,
            signature,
        })
    }
}

impl Certificate {
    /// What the issuer's signature is over: all octets of `to_be_signed` (RFC 5280, 4.1.1.3).
    pub fn signed_bytes<'a>(&self, bytes: &'a [u8]) -> &'a [u8]
        ensures { result.now ≡ element_bytes bytes.entry.now self.now.to_be_signed }
    {
        self.to_be_signed.bytes_of(bytes)
    }
}

/// The last fields of what is signed of a certificate.
#[derive(Clone, Copy)]
struct SubjectFields {
    subject: Element,
    public_key: Element,
    extensions: Option<Element>,
}

impl SubjectFields {
    /// The fields at `offset`. Errors: as `ToBeSigned::parse`.
    #[tactic(auto, unfolding(crate::specs::Certificates::subject_fields))]
    fn at(part: &[u8], offset: usize) -> Result<SubjectFields>
        ensures { result ≡ subject_fields part.now offset }
    {
        let subject = field(part, offset, SEQUENCE)?;
        let public_key = field(part, subject.end, SEQUENCE)?;
        let issuer_id = optional(part, public_key.end, TAGGED_STRING_1)?;
        let after_issuer_id = after(public_key.end, issuer_id);
        let subject_id = optional(part, after_issuer_id, TAGGED_STRING_2)?;
        let after_ids = after(after_issuer_id, subject_id);
        let explicit = optional(part, after_ids, TAGGED_3)?;
        let extensions = only_with_tag(part, explicit, SEQUENCE)?;
        require_end(part, after(after_ids, explicit))?;
        Ok(SubjectFields {
            subject,
            public_key,
            extensions,
        })
    }
}

/// What is signed of a certificate.
#[derive(Clone, Copy)]
pub struct ToBeSigned {
    /// The version, an element `[0]` with an `INTEGER` in it that is 2 for version 3. Version 1 has none.
    pub version: Option<Element>,
    /// The serial number, an `INTEGER`.
    pub serial: Element,
    /// The algorithm of the signature, the same as `Certificate::signature_algorithm`.
    pub signature_algorithm: Element,
    /// The issuer, a name; see `NameAttributes`.
    pub issuer: Element,
    /// When it is valid, a `Validity`.
    pub validity: Element,
    /// The subject, a name: whose key it is.
    pub subject: Element,
    /// The public key, a `SEQUENCE` of an `AlgorithmIdentifier` and a `BIT STRING`.
    pub public_key: Element,
    /// The extensions, a `SEQUENCE OF Extension`: what stands in `[3]`.
    pub extensions: Option<Element>,
}

impl ToBeSigned {
    /// What `Certificate::to_be_signed` says. Errors, in order: `Tag` if it is no `SEQUENCE`; for each field `Missing`, those of
    /// `element_at`, `Tag`, and after the version and the extensions those of the one element that stands in each: `Missing`, those
    /// of `element_at`, `Trailing`, `Tag`; at last `Trailing`.
    #[tactic(auto, unfolding(crate::specs::Certificates::to_be_signed))]
    pub fn parse(bytes: &[u8], element: Element) -> Result<ToBeSigned>
        ensures { result ≡ to_be_signed bytes.now element }
    {
        let part = part_of(bytes, element, SEQUENCE)?;
        let version = optional(part, element.content, TAGGED_0)?;
        only_with_tag(part, version, INTEGER)?;
        let serial = field(part, after(element.content, version), INTEGER)?;
        let signature_algorithm = field(part, serial.end, SEQUENCE)?;
        let issuer = field(part, signature_algorithm.end, SEQUENCE)?;
        let validity = field(part, issuer.end, SEQUENCE)?;
        let fields = SubjectFields::at(part, validity.end)?;
        Ok(ToBeSigned {
            version,
            serial,
            signature_algorithm,
            issuer,
            validity,
            subject: fields.subject,
            public_key: fields.public_key,
            extensions: fields.extensions,
        })
    }
}

/// A time. Errors, in order: `Missing`, those of `element_at`, `Tag`.
#[tactic(auto, unfolding(crate::specs::Certificates::time_field))]
fn time_field(part: &[u8], offset: usize) -> Result<Element>
    ensures { result ≡ time_field part.now offset }
{
    let time = any_field(part, offset)?;
    if time.tag != UTC_TIME && time.tag != GENERALIZED_TIME {
        return Err(SignatureError::Tag {
            offset: time.offset,
            expected: UTC_TIME,
            found: time.tag,
        });
    }
    Ok(time)
}

/// When a certificate is valid.
#[derive(Clone, Copy)]
pub struct Validity {
    /// The first time when it is valid; see `Time`. That it has no fraction of a second (RFC 5280, 4.1.2.5.2) is not tested.
    pub not_before: Element,
    /// The last one.
    pub not_after: Element,
}

impl Validity {
    /// What `ToBeSigned::validity` says. Errors: as `Certificate::parse`.
    #[tactic(auto, unfolding(crate::specs::Certificates::validity))]
    pub fn parse(bytes: &[u8], element: Element) -> Result<Validity>
        ensures { result ≡ validity bytes.now element }
    {
        let part = part_of(bytes, element, SEQUENCE)?;
        let not_before = time_field(part, element.content)?;
        let not_after = time_field(part, not_before.end)?;
        require_end(part, not_after.end)?;
        Ok(Validity {
            not_before,
            not_after,
        })
    }
}

/// Whether at most 7 bits of the last octet of a `BIT STRING` are not used, and all of these are 0.
fn unused_are_zero(count: u8, last: u8) -> bool
    ensures { result ≡ unused_are_zero count last }
{
    count < 8 && last % (1 << count) == 0
}

/// The bits of a `BIT STRING` of one octet or two. `None` if it has more or none, or unused bits that DER does not allow.
fn usage_bits(content: &[u8]) -> Option<u16>
    ensures { result ≡ usage_bits content.now }
{
    match content.len() {
        2 if unused_are_zero(content[0], content[1]) => Some(u16::from(content[1])),
        3 if unused_are_zero(content[0], content[2]) => {
            Some(u16::from(content[1]) + 256 * u16::from(content[2]))
        }
        _ => None,
    }
}

/// An extension of a certificate.
#[derive(Clone, Copy)]
pub struct Extension {
    /// The object identifier of its kind.
    pub kind: Element,
    /// A `BOOLEAN`: whether a reader that does not know the kind has to refuse the certificate.
    pub critical: Option<Element>,
    /// An `OCTET STRING`, whose content is the element that the kind says.
    pub value: Element,
}

impl Extension {
    /// The extension that an element is: one of `ToBeSigned::extensions`. Errors: as `Certificate::parse`.
    #[tactic(auto, unfolding(crate::specs::Certificates::extension))]
    pub fn parse(bytes: &[u8], element: Element) -> Result<Extension>
        ensures { result ≡ extension bytes.now element }
    {
        let part = part_of(bytes, element, SEQUENCE)?;
        let kind = field(part, element.content, OBJECT_IDENTIFIER)?;
        let critical = optional(part, kind.end, BOOLEAN)?;
        let value = field(part, after(kind.end, critical), OCTET_STRING)?;
        require_end(part, value.end)?;
        Ok(Extension {
            kind,
            critical,
            value,
        })
    }

    /// What the key of a certificate is for, of the extension with the kind `KEY_USAGE`: in the low octet 80h
    /// `digitalSignature`, 40h `contentCommitment`, 20h `keyEncipherment`, 10h `dataEncipherment`, 8 `keyAgreement`,
    /// 4 `keyCertSign`, 2 `cRLSign`, 1 `encipherOnly`; 8000h `decipherOnly`. `None` if the bits are more than two octets, or none,
    /// or if the octet before them counts more than 7 bits of the last octet that are not used, or one of these is set. Errors,
    /// in order: `Tag` if the value is no `OCTET STRING`; `Missing`, those of `element_at` and `Trailing` of its content; `Tag`
    /// if that is no `BIT STRING`.
    #[tactic(auto, unfolding(crate::specs::Certificates::key_usage))]
    pub fn key_usage(&self, bytes: &[u8]) -> Result<Option<u16>>
        ensures { result ≡ key_usage bytes.now self.now.value }
    {
        let part = part_of(bytes, self.value, OCTET_STRING)?;
        let string = require_tag(only_element(part, self.value)?, BIT_STRING)?;
        Ok(usage_bits(string.content_of(bytes)))
    }
}
