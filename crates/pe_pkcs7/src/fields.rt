//! The fields of a `SEQUENCE`, one after the other, and walks over the elements of a content. Each takes the bytes up to the
//! end of the parent, so that nothing after it is read.

ghost use Rattle.std.specs.Prelude.{◌≡◌, ◌<◌, ◌≤◌, ◌-◌, take, drop, length, IfOk, IfSome, Some, None};
ghost use Rattle.std.specs.Iterator.{at_most};
ghost use Rattle.std.specs.Str.{bytes_eq};
ghost use Rattle.pe_pkcs7.specs.Fields.{up_to_end, first_element, elements_left, most_elements, any_field, any_optional, with_tag, field, optional, after, ends_at, part_of, only_element, only_if_there, only_with_tag, content_bytes, element_bytes, Gives};
ghost use Rattle.pe_pkcs7.specs.Walks.{Steps};

use crate::der::{Element, element_at};
use crate::error::{Result, SignatureError};
use pe_core::ByteRange;

/// The bytes up to an offset; all, if they end before it.
#[tactic(auto, using(crate::proofs::Parts::all_before))]
pub(crate) fn up_to(bytes: &[u8], end: usize) -> &[u8]
    ensures { result.now ≡ take end bytes.now }
{
    if bytes.len() < end {
        return bytes;
    }
    &bytes[..end]
}

/// The bytes up to the end of an element; all, if they end before it.
pub(crate) fn up_to_end(bytes: &[u8], element: Element) -> &[u8]
    ensures { result.now ≡ up_to_end bytes.now element }
{
    up_to(bytes, element.end)
}

/// The field at `offset`, of any type. Errors, in order: `Missing`, then those of `element_at`.
#[tactic(auto, unfolding(crate::specs::Fields::any_field))]
pub(crate) fn any_field(part: &[u8], offset: usize) -> Result<Element>
    ensures exact { result ≡ any_field part.now offset }
    ensures within { IfOk result (λ x. (offset < x.content) × (x.content ≤ x.end)
        × (x.end ≤ length part.now)) }
{
    if part.len() <= offset {
        return Err(SignatureError::Missing(offset));
    }
    element_at(part, offset)
}

/// The field at `offset`, of any type, or `None` if the fields before it are all. Errors: those of `element_at`.
#[tactic(auto, unfolding(crate::specs::Fields::any_optional))]
pub(crate) fn any_optional(part: &[u8], offset: usize) -> Result<Option<Element>>
    ensures { result ≡ any_optional part.now offset }
{
    if part.len() <= offset {
        return Ok(None);
    }
    Ok(Some(element_at(part, offset)?))
}

/// Returns `Tag` unless the element has this tag.
pub(crate) fn require_tag(element: Element, tag: u8) -> Result<Element>
    ensures { result ≡ with_tag tag element }
{
    if element.tag != tag {
        return Err(SignatureError::Tag {
            offset: element.offset,
            expected: tag,
            found: element.tag,
        });
    }
    Ok(element)
}

/// The field at `offset`, which has this tag. Errors, in order: `Missing`, those of `element_at`, `Tag`.
#[tactic(auto, unfolding(crate::specs::Fields::field))]
pub(crate) fn field(part: &[u8], offset: usize, tag: u8) -> Result<Element>
    ensures exact { result ≡ field tag part.now offset }
    ensures within { IfOk result (λ x. (offset < x.content) × (x.content ≤ x.end)
        × (x.end ≤ length part.now)) }
{
    require_tag(any_field(part, offset)?, tag)
}

/// The field at `offset`, or `None` if the element there has another tag, or if there is none. Errors: those of
/// `element_at`.
#[tactic(auto, unfolding(crate::specs::Fields::optional))]
pub(crate) fn optional(part: &[u8], offset: usize, tag: u8) -> Result<Option<Element>>
    ensures { result ≡ optional tag part.now offset }
{
    if part.len() <= offset || part[offset] != tag {
        return Ok(None);
    }
    Ok(Some(element_at(part, offset)?))
}

/// The offset after a field that may be left out.
pub(crate) fn after(offset: usize, element: Option<Element>) -> usize
    ensures { result ≡ after offset element }
{
    match element {
        Some(element) => element.end,
        None => offset,
    }
}

/// Returns `Trailing` unless the fields before `offset` are all.
pub(crate) fn require_end(part: &[u8], offset: usize) -> Result<()>
    ensures { result ≡ ends_at part.now offset tt }
{
    if offset < part.len() {
        return Err(SignatureError::Trailing {
            offset,
            left: part.len() - offset,
        });
    }
    Ok(())
}

/// The bytes up to the end of an element. Error: `Tag` if it has another tag.
#[tactic(auto, unfolding(crate::specs::Fields::part_of))]
pub(crate) fn part_of(bytes: &[u8], element: Element, tag: u8) -> Result<&[u8]>
    ensures { Gives (λ s. s.now) result (part_of tag bytes.now element) }
{
    require_tag(element, tag)?;
    Ok(up_to_end(bytes, element))
}

/// The only element in the content of another. Errors, in order: `Missing`, those of `element_at`, `Trailing`.
#[tactic(auto, unfolding(crate::specs::Fields::only_element))]
pub(crate) fn only_element(bytes: &[u8], element: Element) -> Result<Element>
    ensures { result ≡ only_element bytes.now element }
{
    let part = up_to_end(bytes, element);
    let inner = any_field(part, element.content)?;
    require_end(part, inner.end)?;
    Ok(inner)
}

/// The only element in the content of another, which may be left out. Errors: those of `only_element`.
#[tactic(auto, unfolding(crate::specs::Fields::only_if_there))]
pub(crate) fn only_if_there(bytes: &[u8], element: Option<Element>) -> Result<Option<Element>>
    ensures { result ≡ only_if_there bytes.now element }
{
    match element {
        Some(element) => Ok(Some(only_element(bytes, element)?)),
        None => Ok(None),
    }
}

/// The same of an element in it that has this tag. Errors, in order: those of `only_element`, `Tag`.
#[tactic(auto, unfolding(crate::specs::Fields::only_with_tag))]
pub(crate) fn only_with_tag(
    bytes: &[u8],
    element: Option<Element>,
    tag: u8,
) -> Result<Option<Element>>
    ensures { result ≡ only_with_tag tag bytes.now element }
{
    match element {
        Some(element) => Ok(Some(require_tag(only_element(bytes, element)?, tag)?)),
        None => Ok(None),
    }
}

/// The elements that are left of a content, one after the other. It is over after an error.
#[derive(Clone, Copy)]
pub struct Elements<'a> {
    part: &'a [u8],
    next_offset: Option<usize>,
}

impl<'a> Elements<'a> {
    /// The elements in the content of `parent`, whose offsets are those in `bytes`.
    pub fn new(bytes: &'a [u8], parent: Element) -> Elements<'a>
        ensures { elements_left result ≡ Some (up_to_end bytes.entry.now parent, parent.content) }
    {
        Elements {
            part: up_to_end(bytes, parent),
            next_offset: Some(parent.content),
        }
    }
}

impl<'a> Iterator for Elements<'a> {
    type Item = Result<Element>;

    ghost next_gives = { λ s r t. Steps first_element (elements_left s) r (elements_left t) };

    ghost remaining = { λ s. at_most (most_elements (elements_left s)) };

    #[tactic(auto, unfolding(crate::specs::Fields::first_element))]
    fn next(&mut self) -> Option<Result<Element>> {
        let offset = self.next_offset?;
        self.next_offset = None;
        if self.part.len() <= offset {
            return None;
        }
        match element_at(self.part, offset) {
            Ok(element) => {
                self.next_offset = Some(element.end);
                Some(Ok(element))
            }
            Err(error) => Some(Err(error)),
        }
    }
}

impl Element {
    /// The content, in the bytes from whose start the offsets count. What of it they do not hold is left out.
    #[tactic(auto, unfolding(crate::specs::Fields::content_bytes), using(crate::proofs::Parts::all_dropped))]
    pub fn content_of<'a>(&self, bytes: &'a [u8]) -> &'a [u8]
        ensures { result.now ≡ content_bytes bytes.entry.now self.now }
    {
        let part = up_to_end(bytes, *self);
        if part.len() < self.content {
            return &[];
        }
        &part[self.content..]
    }

    /// Whether the content is these octets, as those of an object identifier.
    pub fn content_is(&self, bytes: &[u8], octets: &[u8]) -> bool
        ensures { result ≡ bytes_eq (content_bytes bytes.now self.now) octets.now }
    {
        self.content_of(bytes) == octets
    }

    /// All octets of the element, in the bytes from whose start the offsets count. What of it they do not hold is left out.
    #[tactic(auto, unfolding(crate::specs::Fields::element_bytes), using(crate::proofs::Parts::all_dropped))]
    pub fn bytes_of<'a>(&self, bytes: &'a [u8]) -> &'a [u8]
        ensures { result.now ≡ element_bytes bytes.entry.now self.now }
    {
        let part = up_to_end(bytes, *self);
        if part.len() < self.offset {
            return &[];
        }
        &part[self.offset..]
    }

    /// The octets of the element after its tag: those of the length and the content.
    pub fn bytes_after_tag<'a>(&self, bytes: &'a [u8]) -> &'a [u8]
        ensures { result.now ≡ drop 1 (element_bytes bytes.entry.now self.now) }
    {
        let whole = self.bytes_of(bytes);
        if whole.is_empty() {
            return whole;
        }
        &whole[1..]
    }

    /// Where the content is.
    pub fn content_range(&self) -> ByteRange
        ensures { result ≡ record { offset = self.now.content; length = self.now.end - self.now.content } }
    {
        ByteRange {
            offset: self.content,
            length: self.end.saturating_sub(self.content),
        }
    }

    /// Where all octets of the element are.
    pub fn range(&self) -> ByteRange
        ensures { result ≡ record { offset = self.now.offset; length = self.now.end - self.now.offset } }
    {
        ByteRange {
            offset: self.offset,
            length: self.end.saturating_sub(self.offset),
        }
    }
}
