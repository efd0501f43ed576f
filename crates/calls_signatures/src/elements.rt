//! Elements as callers get them, and the one walk over lists of them: certificates, signers, attributes, values, extensions.
//! What each of them says is read by another call, so that one that is refused does not end the walk.

ghost use Rattle.std.specs.Prelude.{◌≡◌};
ghost use Rattle.calls_signatures.specs.SignatureParts.{algorithm_at, algorithm_in, algorithm_part, content_range, element_part, element_reported, elements_after, last_before, next_element, oid_part, optional_content, optional_whole, whole_range};

use crate::refused::{Parsed, Read, element_in, up_to_range};
use calls_base::ranges::{NO_BYTES, Range, range_of};
use pe_pkcs7::{AlgorithmIdentifier, Element, algorithm_number, element_at};

/// An object identifier.
#[repr(C)]
#[derive(Clone, Copy)]
pub struct Oid {
    /// Its content.
    pub octets: Range,
    /// Its number of the group that the field has; 0 without one.
    pub id: u32,
    /// 0.
    pub spare: u32,
}

/// An algorithm.
#[repr(C)]
#[derive(Clone, Copy)]
pub struct Algorithm {
    /// Of the group of algorithms.
    pub oid: Oid,
    /// All octets of the parameters; empty without them.
    pub parameters: Range,
}

/// An element.
#[repr(C)]
#[derive(Clone, Copy)]
pub struct DerElement {
    /// All octets: tag, length and content.
    pub whole: Range,
    /// The content.
    pub content: Range,
    /// The identifier octet.
    pub tag: u32,
    /// 0.
    pub spare: u32,
}

/// The range of all octets of an element.
pub fn whole_range(element: Element) -> Range
    ensures { result ≡ whole_range element }
{
    range_of(element.range())
}

/// The range of the content of an element.
pub fn content_range(element: Element) -> Range
    ensures { result ≡ content_range element }
{
    range_of(element.content_range())
}

/// The same of an element that may be absent: then the empty range.
pub fn optional_whole(element: Option<Element>) -> Range
    ensures { result ≡ optional_whole element }
{
    match element {
        Some(element) => whole_range(element),
        None => NO_BYTES,
    }
}

/// The same of its content.
pub fn optional_content(element: Option<Element>) -> Range
    ensures { result ≡ optional_content element }
{
    match element {
        Some(element) => content_range(element),
        None => NO_BYTES,
    }
}

/// The last `length` bytes before an offset.
pub fn last_before(end: usize, length: usize) -> Range
    ensures { result ≡ last_before end length }
{
    Range {
        offset: end.saturating_sub(length) as u64,
        length: length as u64,
    }
}

/// An object identifier with its number.
pub fn oid_part(element: Element, id: u32) -> Oid
    ensures { result ≡ oid_part element id }
{
    Oid {
        octets: content_range(element),
        id,
        spare: 0,
    }
}

/// An algorithm.
pub fn algorithm_part(bytes: &[u8], algorithm: AlgorithmIdentifier) -> Algorithm
    ensures { result ≡ algorithm_part bytes.now algorithm }
{
    let AlgorithmIdentifier {
        algorithm,
        parameters,
    } = algorithm;
    Algorithm {
        oid: oid_part(algorithm, algorithm_number(algorithm.content_of(bytes))),
        parameters: optional_whole(parameters),
    }
}

/// The algorithm that an element is. Errors: those of `AlgorithmIdentifier::parse`.
pub fn algorithm_at(bytes: &[u8], element: Element) -> Parsed<Algorithm>
    ensures { result ≡ algorithm_at bytes.now element }
{
    let algorithm = AlgorithmIdentifier::parse(bytes, element)?;
    Ok(algorithm_part(bytes, algorithm))
}

pub fn read_algorithm(bytes: &[u8], range: &Range) -> Read<Algorithm>
    ensures { result ≡ algorithm_in bytes.now range.now }
{
    let element = element_in(bytes, range)?;
    Ok(algorithm_at(bytes, element)?)
}

/// An element as callers get it.
fn element_part(element: Element) -> DerElement
    ensures { result ≡ element_part element }
{
    DerElement {
        whole: whole_range(element),
        content: content_range(element),
        tag: u32::from(element.tag),
        spare: 0,
    }
}

/// The element that stands first in what a walk has left, if any is left.
#[tactic(auto, unfolding(crate::specs::SignatureParts::next_element))]
pub fn next_element(bytes: &[u8], walk: &Range) -> Read<Option<Element>>
    ensures { result ≡ next_element bytes.now walk.now }
{
    let part = up_to_range(bytes, walk)?;
    if walk.length == 0 {
        return Ok(None);
    }
    Ok(Some(element_at(part, walk.offset as usize)?))
}

/// The walk after a step: what follows the element.
pub fn elements_after(walk: Range, step: Read<Option<Element>>) -> Range
    ensures { result ≡ elements_after walk step }
{
    match step {
        Ok(Some(element)) => Range {
            offset: element.end as u64,
            length: walk
                .length
                .saturating_sub((element.end as u64).saturating_sub(walk.offset)),
        },
        Ok(None) => walk,
        Err(_) => NO_BYTES,
    }
}

/// What a step returns.
pub fn element_reported(step: Read<Option<Element>>) -> Read<Option<DerElement>>
    ensures { result ≡ element_reported step }
{
    match step {
        Ok(Some(element)) => Ok(Some(element_part(element))),
        Ok(None) => Ok(None),
        Err(refused) => Err(refused),
    }
}
