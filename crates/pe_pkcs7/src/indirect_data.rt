//! What Authenticode signs of an image: the digest of the image, in an `SpcIndirectDataContent`, and what a signer says of the
//! program in an `SpcSpOpusInfo`. Layouts: Microsoft's "Windows Authenticode Portable Executable Signature Format".

ghost use Rattle.std.specs.Prelude.{◌≡◌};
ghost use Rattle.pe_pkcs7.specs.SignedDatas.{algorithm_identifier, type_and_value, digest_info, spc_indirect_data, spc_pe_image_data, spc_sp_opus_info};

use crate::der::Element;
use crate::error::Result;
use crate::fields::{after, any_optional, field, only_if_there, optional, part_of, require_end};
use crate::tags::{BIT_STRING, OBJECT_IDENTIFIER, OCTET_STRING, SEQUENCE, TAGGED_0, TAGGED_1};

/// An algorithm: of a digest, a signature or a key.
#[derive(Clone, Copy)]
pub struct AlgorithmIdentifier {
    /// The object identifier.
    pub algorithm: Element,
    /// The parameters, for most algorithms NULL.
    pub parameters: Option<Element>,
}

impl AlgorithmIdentifier {
    /// The algorithm that an element is. Errors, in order: `Tag` if it is no `SEQUENCE`; for each field `Missing`, those of
    /// `element_at`, `Tag`; `Trailing`.
    #[tactic(auto, unfolding(crate::specs::SignedDatas::algorithm_identifier))]
    pub fn parse(bytes: &[u8], element: Element) -> Result<AlgorithmIdentifier>
        ensures { result ≡ algorithm_identifier bytes.now element }
    {
        let part = part_of(bytes, element, SEQUENCE)?;
        let algorithm = field(part, element.content, OBJECT_IDENTIFIER)?;
        let parameters = any_optional(part, algorithm.end)?;
        require_end(part, after(algorithm.end, parameters))?;
        Ok(AlgorithmIdentifier {
            algorithm,
            parameters,
        })
    }
}

/// What is signed: its type, for an image 1.3.6.1.4.1.311.2.1.15, and what that type has.
#[derive(Clone, Copy)]
pub struct TypeAndValue {
    /// The object identifier of the type.
    pub value_type: Element,
    /// The value, for an image an `SpcPeImageData`.
    pub value: Option<Element>,
}

impl TypeAndValue {
    /// What `SpcIndirectData::signed` says. Errors: as `AlgorithmIdentifier::parse`.
    #[tactic(auto, unfolding(crate::specs::SignedDatas::type_and_value))]
    pub fn parse(bytes: &[u8], element: Element) -> Result<TypeAndValue>
        ensures { result ≡ type_and_value bytes.now element }
    {
        let part = part_of(bytes, element, SEQUENCE)?;
        let value_type = field(part, element.content, OBJECT_IDENTIFIER)?;
        let value = any_optional(part, value_type.end)?;
        require_end(part, after(value_type.end, value))?;
        Ok(TypeAndValue { value_type, value })
    }
}

/// A digest with its algorithm.
#[derive(Clone, Copy)]
pub struct DigestInfo {
    /// The algorithm, an `AlgorithmIdentifier`.
    pub algorithm: Element,
    /// The digest, an `OCTET STRING`.
    pub digest: Element,
}

impl DigestInfo {
    /// What `SpcIndirectData::message_digest` says: the digest of the image. Errors: as `AlgorithmIdentifier::parse`.
    #[tactic(auto, unfolding(crate::specs::SignedDatas::digest_info))]
    pub fn parse(bytes: &[u8], element: Element) -> Result<DigestInfo>
        ensures { result ≡ digest_info bytes.now element }
    {
        let part = part_of(bytes, element, SEQUENCE)?;
        let algorithm = field(part, element.content, SEQUENCE)?;
        let digest = field(part, algorithm.end, OCTET_STRING)?;
        require_end(part, digest.end)?;
        Ok(DigestInfo { algorithm, digest })
    }
}

/// What Authenticode signs: the content of an `EncapsulatedContent` of the type 1.3.6.1.4.1.311.2.1.4.
#[derive(Clone, Copy)]
pub struct SpcIndirectData {
    /// What is signed, a `TypeAndValue`.
    pub signed: Element,
    /// Its digest, a `DigestInfo`.
    pub message_digest: Element,
}

impl SpcIndirectData {
    /// What the content of an `EncapsulatedContent` says. Errors: as `AlgorithmIdentifier::parse`.
    #[tactic(auto, unfolding(crate::specs::SignedDatas::spc_indirect_data))]
    pub fn parse(bytes: &[u8], element: Element) -> Result<SpcIndirectData>
        ensures { result ≡ spc_indirect_data bytes.now element }
    {
        let part = part_of(bytes, element, SEQUENCE)?;
        let signed = field(part, element.content, SEQUENCE)?;
        let message_digest = field(part, signed.end, SEQUENCE)?;
        require_end(part, message_digest.end)?;
        Ok(SpcIndirectData {
            signed,
            message_digest,
        })
    }
}

/// What a signature says of the image as a file: nothing that a reader needs today.
#[derive(Clone, Copy)]
pub struct SpcPeImageData {
    /// Which parts of the file are signed, a `BIT STRING`; not used.
    pub flags: Option<Element>,
    /// A link: `[2]` with the text `<<<Obsolete>>>`, or `[1]` with page hashes.
    pub file: Option<Element>,
}

impl SpcPeImageData {
    /// What the value of a `TypeAndValue` says. Errors, in order: `Tag` if the element is no `SEQUENCE`; those of
    /// `element_at` for each field; `Missing`, those of `element_at` and `Trailing` of the link; `Trailing`.
    #[tactic(auto, unfolding(crate::specs::SignedDatas::spc_pe_image_data))]
    pub fn parse(bytes: &[u8], element: Element) -> Result<SpcPeImageData>
        ensures { result ≡ spc_pe_image_data bytes.now element }
    {
        let part = part_of(bytes, element, SEQUENCE)?;
        let flags = optional(part, element.content, BIT_STRING)?;
        let offset = after(element.content, flags);
        let explicit = optional(part, offset, TAGGED_0)?;
        let file = only_if_there(part, explicit)?;
        require_end(part, after(offset, explicit))?;
        Ok(SpcPeImageData { flags, file })
    }
}

/// What a signer says of the program: the value of the signed attribute 1.3.6.1.4.1.311.2.1.12.
#[derive(Clone, Copy)]
pub struct SpcSpOpusInfo {
    /// The name of the program: UTF-16, the high byte first, by `[0]`, or ASCII by `[1]`.
    pub program_name: Option<Element>,
    /// Where more is said: a URL, ASCII by `[0]`; or an object by `[1]`; or by `[2]` a file name, as `program_name`.
    pub more_info: Option<Element>,
}

impl SpcSpOpusInfo {
    /// What the value of the attribute says. Errors, in order: `Tag` if the element is no `SEQUENCE`; those of `element_at`
    /// for each field; `Missing`, those of `element_at` and `Trailing` of the name, then of the link; `Trailing`.
    #[tactic(auto, unfolding(crate::specs::SignedDatas::spc_sp_opus_info))]
    pub fn parse(bytes: &[u8], element: Element) -> Result<SpcSpOpusInfo>
        ensures { result ≡ spc_sp_opus_info bytes.now element }
    {
        let part = part_of(bytes, element, SEQUENCE)?;
        let name = optional(part, element.content, TAGGED_0)?;
        let offset = after(element.content, name);
        let info = optional(part, offset, TAGGED_1)?;
        let program_name = only_if_there(part, name)?;
        let more_info = only_if_there(part, info)?;
        require_end(part, after(offset, info))?;
        Ok(SpcSpOpusInfo {
            program_name,
            more_info,
        })
    }
}
