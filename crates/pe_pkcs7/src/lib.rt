//! What an Authenticode signature says: what is signed, by whom, when, and what a verifier hashes. Nothing is verified here.
//!
//! A signature is the body of a certificate entry: elements of DER, in which stand a `ContentInfo`, its `SignedData` with
//! certificates and signers, and what is signed, an `SpcIndirectData` with the digest of the image. A time stamp and a nested
//! signature are attributes of a signer, and a `ContentInfo` again.
//!
//! Every call takes the bytes of the signature, and returns an `Element` for each part: its tag, and where it starts and ends in
//! these bytes. `Elements` walks through what an element contains. No call allocates, and none calls itself: a caller that goes
//! into nested elements bounds how deep. Each call reads the head of each field once.
//!
//! Grammars: [RFC 5652](https://www.rfc-editor.org/rfc/rfc5652) and PKCS #7, [RFC 5280](https://www.rfc-editor.org/rfc/rfc5280),
//! [RFC 3161](https://www.rfc-editor.org/rfc/rfc3161), and Microsoft's "Windows Authenticode Portable Executable Signature Format".
//!
//! Every call is proved to return what its definition in `specs/` says, for every byte string.
#![tactic(auto)]

mod certificate;
mod der;
mod error;
mod fields;
mod indirect_data;
pub mod laws;
mod name;
mod object_ids;
mod signed_data;
mod signer;
mod tags;
mod time;
mod time_stamp;

pub use certificate::{Certificate, Extension, ToBeSigned, Validity};
pub use der::{Element, element_at};
pub use error::SignatureError;
pub use fields::Elements;
pub use indirect_data::{
    AlgorithmIdentifier, DigestInfo, SpcIndirectData, SpcPeImageData, SpcSpOpusInfo, TypeAndValue,
};
pub use name::{NameAttribute, NameAttributes, name_attribute_at};
pub use object_ids::{
    CONTENT_TYPE, COUNTER_SIGNATURE, KEY_USAGE, MESSAGE_DIGEST, NESTED_SIGNATURE, SIGNED_DATA,
    SIGNING_TIME, SPC_INDIRECT_DATA, SPC_PE_IMAGE_DATA, SPC_SP_OPUS_INFO, TIME_STAMP_TOKEN,
    TST_INFO, algorithm_number, attribute_number, content_type_number, extension_number,
    name_number,
};
pub use signed_data::{ContentInfo, EncapsulatedContent, SignedData};
pub use signer::{Attribute, IssuerAndSerial, SignerInfo, find_attribute_at};
pub use time::Time;
pub use time_stamp::TstInfo;
