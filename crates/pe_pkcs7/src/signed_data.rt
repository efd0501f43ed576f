//! The signed data that a signature is ([RFC 5652](https://www.rfc-editor.org/rfc/rfc5652), 3 and 5): what is signed,
//! certificates, and a signer for each signature. A caller reads `ContentInfo` at the start of the bytes of a certificate
//! entry of type `WIN_CERT_TYPE_PKCS_SIGNED_DATA`, then `SignedData`, and walks through `certificates` and `signers` by
//! `Elements`.

ghost use Rattle.std.specs.Prelude.{◌≡◌};
ghost use Rattle.std.specs.Option.{option_map};
ghost use Rattle.pe_pkcs7.specs.Fields.{content_bytes};
ghost use Rattle.pe_pkcs7.specs.SignedDatas.{content_info, whole_content_info, content_of_type, signed_data_fields, signed_data, encapsulated_content};

use crate::der::{Element, element_at};
use crate::error::{Result, SignatureError};
use crate::fields::{after, field, only_element, only_if_there, optional, part_of, require_end};
use crate::object_ids::SIGNED_DATA;
use crate::tags::{INTEGER, OBJECT_IDENTIFIER, SEQUENCE, SET, TAGGED_0, TAGGED_1};

/// A content with its type.
#[derive(Clone, Copy)]
pub struct ContentInfo {
    /// The object identifier of the type.
    pub content_type: Element,
    /// The content, of the type that this says.
    pub content: Element,
}

impl ContentInfo {
    /// The one at the start of the bytes of a signature. What follows it is not read: entries are padded with zeros. Errors,
    /// in order: those of `element_at`, then of `of`.
    pub fn parse(bytes: &[u8]) -> Result<ContentInfo>
        ensures { result ≡ whole_content_info bytes.now }
    {
        let element = element_at(bytes, 0)?;
        ContentInfo::of(bytes, element)
    }

    /// The one that an element is: the value of an attribute that is a nested signature or a time stamp. Errors, in order:
    /// `Tag` if it is no `SEQUENCE`; for each field `Missing`, those of `element_at`, `Tag`; those of the
    /// content; `Trailing`.
    #[tactic(auto, unfolding(crate::specs::SignedDatas::content_info))]
    pub fn of(bytes: &[u8], element: Element) -> Result<ContentInfo>
        ensures { result ≡ content_info bytes.now element }
    {
        let part = part_of(bytes, element, SEQUENCE)?;
        let content_type = field(part, element.content, OBJECT_IDENTIFIER)?;
        let explicit = field(part, content_type.end, TAGGED_0)?;
        let content = only_element(part, explicit)?;
        require_end(part, explicit.end)?;
        Ok(ContentInfo {
            content_type,
            content,
        })
    }
}

/// The content, if its type has this object identifier. Error: `ContentType`.
#[tactic(auto, unfolding(crate::specs::SignedDatas::content_of_type))]
pub(crate) fn content_of_type(
    bytes: &[u8],
    content_type: Element,
    content: Element,
    oid: &[u8],
) -> Result<Element>
    ensures { result ≡ content_of_type oid.now bytes.now content_type content }
{
    if !content_type.content_is(bytes, oid) {
        return Err(SignatureError::ContentType(content_type.offset));
    }
    Ok(content)
}

/// Signed data.
#[derive(Clone, Copy)]
pub struct SignedData {
    /// The version, an `INTEGER`: 1 in Authenticode.
    pub version: Element,
    /// The digest algorithms of all signers, a `SET OF AlgorithmIdentifier`.
    pub digest_algorithms: Element,
    /// What is signed, an `EncapsulatedContent`.
    pub encapsulated: Element,
    /// Certificates, in any order: a `SET OF` by `[0]`. Those that are a `SEQUENCE` are X.509 certificates.
    pub certificates: Option<Element>,
    /// Certificate revocation lists: a `SET OF` by `[1]`.
    pub crls: Option<Element>,
    /// The signers, a `SET OF SignerInfo`; one in Authenticode.
    pub signers: Element,
}

impl SignedData {
    /// The signed data of a content. Errors, in order: `ContentType` if the content is of another type; `Tag` if it is no
    /// `SEQUENCE`; for each field `Missing`, those of `element_at`, `Tag`; `Trailing`.
    pub fn parse(bytes: &[u8], info: &ContentInfo) -> Result<SignedData>
        ensures { result ≡ signed_data bytes.now info.now }
    {
        let content = content_of_type(bytes, info.content_type, info.content, &SIGNED_DATA)?;
        SignedData::fields(bytes, content)
    }

    /// The signed data that an element is.
    #[tactic(auto, unfolding(crate::specs::SignedDatas::signed_data_fields))]
    fn fields(bytes: &[u8], element: Element) -> Result<SignedData>
        ensures { result ≡ signed_data_fields bytes.now element }
    {
        let part = part_of(bytes, element, SEQUENCE)?;
        let version = field(part, element.content, INTEGER)?;
        let digest_algorithms = field(part, version.end, SET)?;
        let encapsulated = field(part, digest_algorithms.end, SEQUENCE)?;
        let certificates = optional(part, encapsulated.end, TAGGED_0)?;
        let offset = after(encapsulated.end, certificates);
        let crls = optional(part, offset, TAGGED_1)?;
        let signers = field(part, after(offset, crls), SET)?;
        require_end(part, signers.end)?;
        Ok(SignedData {
            version,
            digest_algorithms,
            encapsulated,
            certificates,
            crls,
            signers,
        })
    }
}

/// What is signed, with its type.
#[derive(Clone, Copy)]
pub struct EncapsulatedContent {
    /// The object identifier of the type.
    pub content_type: Element,
    /// What is signed. `messageDigest` is the digest of its content, without its tag and length.
    pub content: Option<Element>,
}

impl EncapsulatedContent {
    /// What the digest `messageDigest` is of: the content of what is signed, without its tag and length (RFC 5652, 5.4; PKCS #7
    /// 1.5, 9.3). `None` if it is not there, but detached.
    pub fn digested<'a>(&self, bytes: &'a [u8]) -> Option<&'a [u8]>
        ensures { option_map (λ s. s.now) result
            ≡ option_map (content_bytes bytes.entry.now) self.now.content }
    {
        match self.content {
            Some(content) => Some(content.content_of(bytes)),
            None => None,
        }
    }

    /// What `SignedData::encapsulated` says. Errors, in order: `Tag` if the element is no `SEQUENCE`; for each field
    /// `Missing`, those of `element_at`, `Tag`; those of the content; `Trailing`.
    #[tactic(auto, unfolding(crate::specs::SignedDatas::encapsulated_content))]
    pub fn parse(bytes: &[u8], element: Element) -> Result<EncapsulatedContent>
        ensures { result ≡ encapsulated_content bytes.now element }
    {
        let part = part_of(bytes, element, SEQUENCE)?;
        let content_type = field(part, element.content, OBJECT_IDENTIFIER)?;
        let explicit = optional(part, content_type.end, TAGGED_0)?;
        let content = only_if_there(part, explicit)?;
        require_end(part, after(content_type.end, explicit))?;
        Ok(EncapsulatedContent {
            content_type,
            content,
        })
    }
}
