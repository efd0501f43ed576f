//! Time-stamp tokens ([RFC 3161](https://www.rfc-editor.org/rfc/rfc3161), 2.4): the value of the unsigned attribute
//! 1.3.6.1.4.1.311.3.3.1 is a `ContentInfo` of signed data, whose content of the type 1.2.840.113549.1.9.16.1.4 is an
//! `OCTET STRING` with a `TSTInfo`: the digest of the signature that is stamped, and the time.

ghost use Rattle.std.specs.Prelude.{◌≡◌};
ghost use Rattle.pe_pkcs7.specs.TimeStamps.{last_fields, tst_info_fields, tst_info};

use crate::der::Element;
use crate::error::Result;
use crate::fields::{after, field, only_element, optional, part_of, require_end};
use crate::tags::{
    BOOLEAN, GENERALIZED_TIME, INTEGER, OBJECT_IDENTIFIER, OCTET_STRING, SEQUENCE, TAGGED_0,
    TAGGED_1,
};

/// The last fields of a `TSTInfo`.
#[derive(Clone, Copy)]
struct LastFields {
    accuracy: Option<Element>,
    nonce: Option<Element>,
    tsa: Option<Element>,
}

impl LastFields {
    /// The fields at `offset`. Errors: as `TstInfo::parse`.
    #[tactic(auto, unfolding(crate::specs::TimeStamps::last_fields))]
    fn at(part: &[u8], offset: usize) -> Result<LastFields>
        ensures { result ≡ last_fields part.now offset }
    {
        let accuracy = optional(part, offset, SEQUENCE)?;
        let offset = after(offset, accuracy);
        let ordering = optional(part, offset, BOOLEAN)?;
        let offset = after(offset, ordering);
        let nonce = optional(part, offset, INTEGER)?;
        let offset = after(offset, nonce);
        let tsa = optional(part, offset, TAGGED_0)?;
        let offset = after(offset, tsa);
        let extensions = optional(part, offset, TAGGED_1)?;
        require_end(part, after(offset, extensions))?;
        Ok(LastFields {
            accuracy,
            nonce,
            tsa,
        })
    }
}

/// What a time-stamp token says. Its `ordering` and its extensions are read past, and are not kept.
#[derive(Clone, Copy)]
pub struct TstInfo {
    /// The version, an `INTEGER`: 1.
    pub version: Element,
    /// The object identifier of the policy of who stamps.
    pub policy: Element,
    /// The digest of what is stamped, a `DigestInfo`: in Authenticode of the content of `SignerInfo::signature`.
    pub message_imprint: Element,
    /// The serial number of the token, an `INTEGER`.
    pub serial: Element,
    /// When it was stamped, a `GeneralizedTime`; see `Time`.
    pub time: Element,
    /// How exact the time is.
    pub accuracy: Option<Element>,
    /// A number by which who asked knows the token, an `INTEGER`.
    pub nonce: Option<Element>,
    /// The name of who stamps, by `[0]`.
    pub tsa: Option<Element>,
}

impl TstInfo {
    /// What a token signs, which an `EncapsulatedContent` has. Errors, in order: `Tag` if the element is no `OCTET STRING`;
    /// `Missing`, those of `element_at` and `Trailing` of its content; then `Tag` if that is no `SEQUENCE`; for each field
    /// `Missing`, those of `element_at`, `Tag`; `Trailing`.
    #[tactic(auto, unfolding(crate::specs::TimeStamps::tst_info))]
    pub fn parse(bytes: &[u8], element: Element) -> Result<TstInfo>
        ensures { result ≡ tst_info bytes.now element }
    {
        let part = part_of(bytes, element, OCTET_STRING)?;
        TstInfo::fields(part, only_element(part, element)?)
    }

    /// The one that an element is.
    #[tactic(auto, unfolding(crate::specs::TimeStamps::tst_info_fields))]
    fn fields(bytes: &[u8], element: Element) -> Result<TstInfo>
        ensures { result ≡ tst_info_fields bytes.now element }
    {
        let part = part_of(bytes, element, SEQUENCE)?;
        let version = field(part, element.content, INTEGER)?;
        let policy = field(part, version.end, OBJECT_IDENTIFIER)?;
        let message_imprint = field(part, policy.end, SEQUENCE)?;
        let serial = field(part, message_imprint.end, INTEGER)?;
        let time = field(part, serial.end, GENERALIZED_TIME)?;
        let fields = LastFields::at(part, time.end)?;
        Ok(TstInfo {
            version,
            policy,
            message_imprint,
            serial,
            time,
            accuracy: fields.accuracy,
            nonce: fields.nonce,
            tsa: fields.tsa,
        })
    }
}
