//! Times of signatures and certificates, and what time-stamp tokens say ([RFC 3161](https://www.rfc-editor.org/rfc/rfc3161), 2.4).

ghost use Rattle.std.specs.Prelude.{◌≡◌};
ghost use Rattle.calls_signatures.specs.Signatures.{time_at, time_in, time_stamp_at, time_stamp_in, time_stamp_part};

use crate::elements::{
    Algorithm, algorithm_at, content_range, optional_content, optional_whole, whole_range,
};
use crate::refused::{Parsed, Read, element_in};
use calls_base::ranges::Range;
use pe_pkcs7::{DigestInfo, Element, Time, TstInfo};

/// A time in UTC.
#[repr(C)]
#[derive(Clone, Copy)]
pub struct UtcTime {
    /// 0 to 9999.
    pub year: u32,
    /// 1 to 12.
    pub month: u32,
    /// 1 to 31.
    pub day: u32,
    /// 0 to 23.
    pub hour: u32,
    /// 0 to 59.
    pub minute: u32,
    /// 0 to 59.
    pub second: u32,
}

/// The time that an element is. Error: `BadTime`.
fn time_at(bytes: &[u8], element: Element) -> Parsed<UtcTime>
    ensures { result ≡ time_at bytes.now element }
{
    let Time {
        year,
        month,
        day,
        hour,
        minute,
        second,
    } = Time::parse(bytes, element)?;
    Ok(UtcTime {
        year,
        month,
        day,
        hour,
        minute,
        second,
    })
}

pub fn read_time(bytes: &[u8], range: &Range) -> Read<UtcTime>
    ensures { result ≡ time_in bytes.now range.now }
{
    let element = element_in(bytes, range)?;
    Ok(time_at(bytes, element)?)
}

/// What a time-stamp token says. Ranges are of contents, but for `time` and `accuracy`.
#[repr(C)]
#[derive(Clone, Copy)]
pub struct TimeStamp {
    /// The version, an `INTEGER`.
    pub version: Range,
    /// The object identifier of the policy.
    pub policy: Range,
    /// The algorithm of the digest.
    pub digest_algorithm: Algorithm,
    /// The digest of what is stamped.
    pub digest: Range,
    /// The serial number of the token.
    pub serial: Range,
    /// All octets of the time.
    pub time: Range,
    /// All octets of how exact it is; empty without them.
    pub accuracy: Range,
    /// The number of who asked; empty without one.
    pub nonce: Range,
    /// The name of who stamps; empty without one.
    pub authority: Range,
}

/// What a token says as callers get it, with its digest.
fn time_stamp_part(info: TstInfo, digest: DigestInfo, digest_algorithm: Algorithm) -> TimeStamp
    ensures { result ≡ time_stamp_part info digest digest_algorithm }
{
    TimeStamp {
        version: content_range(info.version),
        policy: content_range(info.policy),
        digest_algorithm,
        digest: content_range(digest.digest),
        serial: content_range(info.serial),
        time: whole_range(info.time),
        accuracy: optional_whole(info.accuracy),
        nonce: optional_content(info.nonce),
        authority: optional_content(info.tsa),
    }
}

/// What the content of a token says. Errors: those of `TstInfo::parse`, then of `DigestInfo::parse` and
/// `AlgorithmIdentifier::parse`.
fn time_stamp_at(bytes: &[u8], element: Element) -> Parsed<TimeStamp>
    ensures { result ≡ time_stamp_at bytes.now element }
{
    let info = TstInfo::parse(bytes, element)?;
    let digest = DigestInfo::parse(bytes, info.message_imprint)?;
    let algorithm = algorithm_at(bytes, digest.algorithm)?;
    Ok(time_stamp_part(info, digest, algorithm))
}

pub fn read_time_stamp(bytes: &[u8], range: &Range) -> Read<TimeStamp>
    ensures { result ≡ time_stamp_in bytes.now range.now }
{
    let element = element_in(bytes, range)?;
    Ok(time_stamp_at(bytes, element)?)
}
