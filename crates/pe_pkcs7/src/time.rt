//! Times: of the validity of certificates, of signing, of time stamps. They are in UTC, as decimal digits: `UTCTime` with two
//! digits for the years 1950 to 2049 ([RFC 5280](https://www.rfc-editor.org/rfc/rfc5280), 4.1.2.5), `GeneralizedTime` with four.

ghost use Rattle.std.specs.Prelude.{◌≡◌, ◌+◌, ◌≤◌, ◌<◌, length};
ghost use Rattle.std.specs.List.{list_all};
ghost use Rattle.pe_pkcs7.specs.Times.{is_digit, two_digits, time_from, is_time, utc_time, has_fraction, generalized_time, time_by_tag, time_of};

use crate::der::Element;
use crate::error::{Result, SignatureError};
use crate::tags::{GENERALIZED_TIME, UTC_TIME};

/// The size of a `UTCTime`: twelve digits and `Z`.
const SIZE_OF_UTC_TIME: usize = 13;

/// The size of a `GeneralizedTime` without a fraction of a second: fourteen digits and `Z`.
const SIZE_OF_GENERALIZED_TIME: usize = 15;

/// A time in UTC.
#[derive(Clone, Copy)]
pub struct Time {
    /// 0 to 9999; of a `UTCTime` 1950 to 2049.
    pub year: u32,
    /// 1 to 12.
    pub month: u32,
    /// 1 to 31; that a month has fewer days is not tested.
    pub day: u32,
    /// 0 to 23.
    pub hour: u32,
    /// 0 to 59.
    pub minute: u32,
    /// 0 to 59: no leap second.
    pub second: u32,
}

/// Whether an octet is a decimal digit.
fn is_digit(octet: u8) -> bool
    ensures { result ≡ is_digit octet }
{
    b'0' <= octet && octet <= b'9'
}

/// Whether all octets are decimal digits.
fn are_digits(text: &[u8]) -> bool
    ensures { result ≡ list_all is_digit text.now }
{
    text.iter().all(|octet| is_digit(*octet))
}

/// The number that two decimal digits are.
#[tactic(auto, unfolding(crate::specs::Times::two_digits))]
fn two_digits(text: &[u8], offset: usize) -> u32
    requires { offset + 2 ≤ length text.now }
    ensures number { result ≡ two_digits text.now offset }
    ensures small { result ≤ 2277 }
{
    let (tens, ones) = (text[offset], text[offset + 1]);
    10 * u32::from(tens.saturating_sub(b'0')) + u32::from(ones.saturating_sub(b'0'))
}

/// The time of this year whose month and what follows it are two digits each, from `offset` on.
#[tactic(auto, unfolding(crate::specs::Times::time_from))]
fn time_from(year: u32, text: &[u8], offset: usize) -> Time
    requires { offset + 10 ≤ length text.now }
    ensures { result ≡ time_from year text.now offset }
{
    Time {
        year,
        month: two_digits(text, offset),
        day: two_digits(text, offset + 2),
        hour: two_digits(text, offset + 4),
        minute: two_digits(text, offset + 6),
        second: two_digits(text, offset + 8),
    }
}

/// The time that a `UTCTime` is: twelve digits and `Z`. `None` if it is none.
#[tactic(auto, unfolding(crate::specs::Times::utc_time))]
fn utc_time(text: &[u8]) -> Option<Time>
    ensures { result ≡ utc_time text.now }
{
    if text.len() != SIZE_OF_UTC_TIME || !are_digits(&text[..12]) || text[12] != b'Z' {
        return None;
    }
    let year = two_digits(text, 0);
    let century = if year < 50 { 2000 } else { 1900 };
    Some(time_from(century + year, text, 2))
}

/// Whether a fraction of a second follows the fourteen digits of a `GeneralizedTime`, up to its last octet: a dot and digits, the
/// last of which is not 0.
#[tactic(auto, unfolding(crate::specs::Times::has_fraction))]
fn has_fraction(text: &[u8]) -> bool
    requires { 15 ≤ length text.now }
    ensures { result ≡ has_fraction text.now }
{
    text[14] == b'.'
        && text.len() >= 17
        && are_digits(&text[15..text.len() - 1])
        && text[text.len() - 2] != b'0'
}

/// The time that a `GeneralizedTime` is: fourteen digits, a fraction of a second or none, and `Z`. `None` if it is none.
#[tactic(auto, unfolding(crate::specs::Times::generalized_time))]
fn generalized_time(text: &[u8]) -> Option<Time>
    ensures { result ≡ generalized_time text.now }
{
    if text.len() < SIZE_OF_GENERALIZED_TIME || !are_digits(&text[..14]) {
        return None;
    }
    if text[text.len() - 1] != b'Z' {
        return None;
    }
    if text.len() != SIZE_OF_GENERALIZED_TIME && !has_fraction(text) {
        return None;
    }
    let year = 100 * two_digits(text, 0) + two_digits(text, 2);
    Some(time_from(year, text, 4))
}

/// The time in a content, by the tag of its element.
fn time_by_tag(tag: u8, text: &[u8]) -> Option<Time>
    ensures { result ≡ time_by_tag tag text.now }
{
    match tag {
        UTC_TIME => utc_time(text),
        GENERALIZED_TIME => generalized_time(text),
        _ => None,
    }
}

impl Time {
    /// Whether a calendar and a clock have its numbers.
    fn is_time(&self) -> bool
        ensures { result ≡ is_time self.now }
    {
        1 <= self.month
            && self.month <= 12
            && 1 <= self.day
            && self.day <= 31
            && self.hour < 24
            && self.minute < 60
            && self.second < 60
    }

    /// The time that an element is, a `UTCTime` or a `GeneralizedTime`. A fraction of a second is left out: a time stamp may have
    /// one (RFC 3161, 2.4.2), a certificate and a signing time have none by RFC 5280 and RFC 5652, which is not tested. Error:
    /// `BadTime` if it is neither, or not in the form that DER has, or has a number that no time has.
    #[tactic(auto, unfolding(crate::specs::Times::time_of))]
    pub fn parse(bytes: &[u8], element: Element) -> Result<Time>
        ensures { result ≡ time_of bytes.now element }
    {
        match time_by_tag(element.tag, element.content_of(bytes)) {
            Some(time) if time.is_time() => Ok(time),
            _ => Err(SignatureError::BadTime(element.offset)),
        }
    }
}
