//! The X.509 certificates of a signature ([RFC 5280](https://www.rfc-editor.org/rfc/rfc5280), 4.1): whose key it is, by whose word,
//! when it is valid, and what for.

ghost use Rattle.std.specs.Prelude.{◌≡◌};
ghost use Rattle.calls_signatures.specs.SignatureParts.{bits_range};
ghost use Rattle.calls_signatures.specs.X509.{extension_at, extension_in, is_true, key_usage_at, key_usage_in, x509_at, x509_in, x509_part};

use crate::elements::{
    Algorithm, Oid, algorithm_at, content_range, last_before, oid_part, optional_content,
    whole_range,
};
use crate::refused::{Parsed, Read, element_in};
use calls_base::ranges::Range;
use pe_pkcs7::{Certificate, Element, Extension, ToBeSigned, Validity, extension_number};

/// A certificate. Ranges are of whole elements, but for `serial`, `extensions` and `signature`.
#[repr(C)]
#[derive(Clone, Copy)]
pub struct X509 {
    /// What the issuer's signature is over.
    pub to_be_signed: Range,
    /// The content of the serial number.
    pub serial: Range,
    /// The name of the issuer.
    pub issuer: Range,
    /// The name of the subject.
    pub subject: Range,
    /// The first time when it is valid.
    pub not_before: Range,
    /// The last one.
    pub not_after: Range,
    /// The key with its algorithm.
    pub public_key: Range,
    /// A walk over the extensions; empty without them.
    pub extensions: Range,
    /// The algorithm of the signature.
    pub signature_algorithm: Algorithm,
    /// The signature, without the octet before its bits.
    pub signature: Range,
}

/// The range of the bits of a `BIT STRING`, whose first octet says how many of the last are not used.
fn bits_range(element: Element) -> Range
    ensures { result ≡ bits_range element }
{
    last_before(
        element.end,
        element
            .end
            .saturating_sub(element.content)
            .saturating_sub(1),
    )
}

/// A certificate as callers get it, of its parts.
fn x509_part(
    certificate: Certificate,
    own: ToBeSigned,
    validity: Validity,
    signature_algorithm: Algorithm,
) -> X509
    ensures { result ≡ x509_part certificate own validity signature_algorithm }
{
    X509 {
        to_be_signed: whole_range(certificate.to_be_signed),
        serial: content_range(own.serial),
        issuer: whole_range(own.issuer),
        subject: whole_range(own.subject),
        not_before: whole_range(validity.not_before),
        not_after: whole_range(validity.not_after),
        public_key: whole_range(own.public_key),
        extensions: optional_content(own.extensions),
        signature_algorithm,
        signature: bits_range(certificate.signature),
    }
}

/// The certificate that an element is. Errors: those of `Certificate::parse`, `ToBeSigned::parse`, `Validity::parse`, and of
/// `AlgorithmIdentifier::parse` of the signature.
fn x509_at(bytes: &[u8], element: Element) -> Parsed<X509>
    ensures { result ≡ x509_at bytes.now element }
{
    let certificate = Certificate::parse(bytes, element)?;
    let own = ToBeSigned::parse(bytes, certificate.to_be_signed)?;
    let validity = Validity::parse(bytes, own.validity)?;
    let signature_algorithm = algorithm_at(bytes, certificate.signature_algorithm)?;
    Ok(x509_part(certificate, own, validity, signature_algorithm))
}

pub fn read_x509(bytes: &[u8], range: &Range) -> Read<X509>
    ensures { result ≡ x509_in bytes.now range.now }
{
    let element = element_in(bytes, range)?;
    Ok(x509_at(bytes, element)?)
}

/// An extension of a certificate.
#[repr(C)]
#[derive(Clone, Copy)]
pub struct X509Extension {
    /// Of the group of extensions.
    pub kind: Oid,
    /// The content of its `OCTET STRING`.
    pub value: Range,
    /// 1 where it is critical, else 0.
    pub critical: u32,
    /// 0.
    pub spare: u32,
}

/// Whether a `BOOLEAN` is there, and not false: another content than one octet of 0.
fn is_true(bytes: &[u8], element: Option<Element>) -> bool
    ensures { result ≡ is_true bytes.now element }
{
    match element {
        Some(element) => !element.content_is(bytes, &[0]),
        None => false,
    }
}

/// The extension that an element is. Errors: those of `Extension::parse`.
fn extension_at(bytes: &[u8], element: Element) -> Parsed<X509Extension>
    ensures { result ≡ extension_at bytes.now element }
{
    let Extension {
        kind,
        critical,
        value,
    } = Extension::parse(bytes, element)?;
    Ok(X509Extension {
        kind: oid_part(kind, extension_number(kind.content_of(bytes))),
        value: content_range(value),
        critical: u32::from(is_true(bytes, critical)),
        spare: 0,
    })
}

pub fn read_extension(bytes: &[u8], range: &Range) -> Read<X509Extension>
    ensures { result ≡ extension_in bytes.now range.now }
{
    let element = element_in(bytes, range)?;
    Ok(extension_at(bytes, element)?)
}

/// What the key is for, as an extension says. Errors: those of `Extension::parse`, then of `Extension::key_usage`.
fn key_usage_at(bytes: &[u8], element: Element) -> Parsed<Option<u32>>
    ensures { result ≡ key_usage_at bytes.now element }
{
    let extension = Extension::parse(bytes, element)?;
    match extension.key_usage(bytes)? {
        Some(bits) => Ok(Some(u32::from(bits))),
        None => Ok(None),
    }
}

pub fn read_key_usage(bytes: &[u8], range: &Range) -> Read<Option<u32>>
    ensures { result ≡ key_usage_in bytes.now range.now }
{
    let element = element_in(bytes, range)?;
    Ok(key_usage_at(bytes, element)?)
}
