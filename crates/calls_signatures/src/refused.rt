//! Why an element of a signature is refused, as callers get it, and how a call reads the element that a range starts with.

ghost use Rattle.std.specs.Prelude.{◌≡◌, ◌+◌, length};
ghost use Rattle.calls_signatures.specs.SignatureParts.{GivesPart, SignatureHandsOut, SignatureHandsOutIf, element_in, failure, refused, signature_number, up_to_range};

use calls_base::ranges::{Range, slice_of};
use calls_base::results::{DONE, NOTHING};
use pe_pkcs7::{Element, SignatureError, element_at};

/// Why an element is refused.
#[repr(C)]
#[derive(Clone, Copy)]
pub struct SignatureFailure {
    /// The offset of the element, or of the range that is not inside the bytes.
    pub offset: u64,
    /// The tag that is there, how many octets a length has after its first, the length of a content, or that of the range; else 0.
    pub value: u64,
    /// How many bytes the parent has left, or follow the last field; else 0.
    pub left: u64,
    /// The tag that the grammar has there; else 0.
    pub expected: u32,
    /// The number of the error.
    pub result: u32,
}

/// The result of reading a part of a signature.
pub type Read<T> = std::result::Result<T, SignatureFailure>;

/// The result of reading an element.
pub type Parsed<T> = std::result::Result<T, SignatureError>;

/// The number of a range that is not inside the bytes.
const SHORT: u32 = 2;

/// The number of an error of a signature. It stays the same from version to version. `tools/make_errors` writes the arms.
fn number_of_signature(error: SignatureError) -> u32
    ensures { result ≡ signature_number error }
{
    match error {
        SignatureError::Truncated { .. } => 501,
        SignatureError::TagNumber(_) => 502,
        SignatureError::IndefiniteLength(_) => 503,
        SignatureError::LengthOctets { .. } => 504,
        SignatureError::LengthForm(_) => 505,
        SignatureError::PastParent { .. } => 506,
        SignatureError::Missing(_) => 507,
        SignatureError::Tag { .. } => 508,
        SignatureError::Trailing { .. } => 509,
        SignatureError::ContentType(_) => 510,
        SignatureError::BadTime(_) => 511,
        SignatureError::EndOfContents(_) => 512,
        SignatureError::EmptyContent(_) => 513,
    }
}

/// A failure at an offset, where the parent has so many bytes left.
fn failure(number: u32, offset: usize, value: u64, left: usize) -> SignatureFailure
    ensures { result ≡ failure number offset value left }
{
    SignatureFailure {
        offset: offset as u64,
        value,
        left: left as u64,
        expected: 0,
        result: number,
    }
}

/// The failure of an error.
fn refused(error: SignatureError) -> SignatureFailure
    ensures { result ≡ refused error }
{
    let number = number_of_signature(error);
    match error {
        SignatureError::Truncated { offset, left } | SignatureError::Trailing { offset, left } => {
            failure(number, offset, 0, left)
        }
        SignatureError::LengthOctets { offset, octets } => {
            failure(number, offset, u64::from(octets), 0)
        }
        SignatureError::PastParent {
            offset,
            length,
            left,
        } => failure(number, offset, u64::from(length), left),
        SignatureError::Tag {
            offset,
            expected,
            found,
        } => SignatureFailure {
            expected: u32::from(expected),
            ..failure(number, offset, u64::from(found), 0)
        },
        SignatureError::TagNumber(offset)
        | SignatureError::EndOfContents(offset)
        | SignatureError::IndefiniteLength(offset)
        | SignatureError::LengthForm(offset)
        | SignatureError::EmptyContent(offset)
        | SignatureError::Missing(offset)
        | SignatureError::ContentType(offset)
        | SignatureError::BadTime(offset) => failure(number, offset, 0, 0),
    }
}

impl From<SignatureError> for SignatureFailure {
    ghost from_gives = { λ error failure. failure ≡ refused error };

    fn from(error: SignatureError) -> SignatureFailure {
        refused(error)
    }
}

/// The bytes up to the end of a range. Refused where the range is not inside the bytes.
#[tactic(auto, unfolding(crate::specs::SignatureParts::up_to_range))]
pub fn up_to_range<'a>(bytes: &'a [u8], range: &Range) -> Read<&'a [u8]>
    ensures { GivesPart (λ s. s.now) result (up_to_range bytes.entry.now range.now) }
{
    match slice_of(bytes, range) {
        Ok(_) => Ok(&bytes[..(range.offset + range.length) as usize]),
        Err(_) => Err(SignatureFailure {
            offset: range.offset,
            value: range.length,
            left: 0,
            expected: 0,
            result: SHORT,
        }),
    }
}

/// The element that a range starts with. What follows it in the range is not read.
#[tactic(auto, unfolding(crate::specs::SignatureParts::element_in))]
pub fn element_in(bytes: &[u8], range: &Range) -> Read<Element>
    ensures { result ≡ element_in bytes.now range.now }
{
    let part = up_to_range(bytes, range)?;
    Ok(element_at(part, range.offset as usize)?)
}

/// Writes a part to `out` and returns `DONE`, or writes the failure to its record and returns its number.
pub fn hand_out_part<T: Copy>(given: Read<T>, failure: &mut SignatureFailure, out: &mut T) -> u32
    ensures { SignatureHandsOut result failure.old failure.new out.old out.new given }
{
    match given {
        Ok(part) => {
            *out = part;
            DONE
        }
        Err(refused) => {
            *failure = refused;
            refused.result
        }
    }
}

/// The same of what may be absent: then returns `NOTHING` and leaves `out` unchanged.
pub fn hand_out_part_if<T: Copy>(
    given: Read<Option<T>>,
    failure: &mut SignatureFailure,
    out: &mut T,
) -> u32
    ensures { SignatureHandsOutIf result failure.old failure.new out.old out.new given }
{
    match given {
        Ok(Some(part)) => {
            *out = part;
            DONE
        }
        Ok(None) => NOTHING,
        Err(refused) => {
            *failure = refused;
            refused.result
        }
    }
}
