//! Names of issuers and subjects ([RFC 5280](https://www.rfc-editor.org/rfc/rfc5280), 4.1.2.4): a `SEQUENCE` of relative
//! distinguished names, each a `SET` of attributes, of which nearly all have one. An attribute is an object identifier, as
//! 2.5.4.3 for a common name, and a string of some type.

ghost use Rattle.std.specs.Prelude.{◌≡◌, ◌<◌, ◌≤◌, length, IfOk, Some, None};
ghost use Rattle.std.specs.Iterator.{at_most};
ghost use Rattle.pe_pkcs7.specs.Names.{name_attribute, attribute_in, attribute_at, first_name_attribute, whole_name, name_left, most_attributes};
ghost use Rattle.pe_pkcs7.specs.Fields.{Gives};
ghost use Rattle.pe_pkcs7.specs.Walks.{Steps};

use crate::der::Element;
use crate::error::Result;
use crate::fields::{any_field, field, part_of, require_end, up_to};
use crate::tags::{OBJECT_IDENTIFIER, SEQUENCE, SET};

/// An attribute of a name.
#[derive(Clone, Copy)]
pub struct NameAttribute {
    /// The object identifier of its kind.
    pub kind: Element,
    /// The value, mostly a string: its tag says which (`PrintableString` 13h, `UTF8String` 0Ch, `IA5String` 16h,
    /// `BMPString` 1Eh, `T61String` 14h).
    pub value: Element,
    /// Whether it is the first of its relative distinguished name.
    pub starts_rdn: bool,
}

impl NameAttribute {
    /// The attribute that an element is. Errors, in order: `Tag` if it is no `SEQUENCE`; for each field `Missing`, those of
    /// `element_at`, `Tag`; `Trailing`.
    #[tactic(auto, unfolding(crate::specs::Names::name_attribute))]
    fn parse(bytes: &[u8], element: Element, starts_rdn: bool) -> Result<NameAttribute>
        ensures { result ≡ name_attribute bytes.now element starts_rdn }
    {
        let part = part_of(bytes, element, SEQUENCE)?;
        let kind = field(part, element.content, OBJECT_IDENTIFIER)?;
        let value = any_field(part, kind.end)?;
        require_end(part, value.end)?;
        Ok(NameAttribute {
            kind,
            value,
            starts_rdn,
        })
    }
}

/// The attribute at `offset` in a relative distinguished name that ends at `end`, with this end and the offset after it.
/// Errors, in order: `Missing`, those of `element_at`, then of `NameAttribute::parse`.
#[tactic(auto, unfolding(crate::specs::Names::attribute_in))]
fn attribute_in(
    name: &[u8],
    end: usize,
    offset: usize,
    starts_rdn: bool,
) -> Result<(NameAttribute, (usize, usize))>
    ensures exact { result ≡ attribute_in name.now end offset starts_rdn }
    ensures within { IfOk result (λ x. (offset < x.1.1) × (offset < length name.now)) }
{
    let rdn = up_to(name, end);
    let element = any_field(rdn, offset)?;
    let attribute = NameAttribute::parse(rdn, element, starts_rdn)?;
    Ok((attribute, (end, element.end)))
}

/// The attribute at `offset`, where the relative distinguished name that is read ends at `end`, with the end of its own and
/// the offset after it. Errors, in order: `Missing`, those of `element_at` and `Tag` of the next relative distinguished name,
/// if the attribute is its first; those of `attribute_in`.
#[tactic(auto, unfolding(crate::specs::Names::attribute_at))]
pub fn name_attribute_at(
    name: &[u8],
    end: usize,
    offset: usize,
) -> Result<(NameAttribute, (usize, usize))>
    ensures exact { result ≡ attribute_at name.now end offset }
    ensures within { IfOk result (λ x. (offset < x.1.1) × (offset < length name.now)) }
{
    if offset < end {
        return attribute_in(name, end, offset, false);
    }
    let rdn = field(name, offset, SET)?;
    attribute_in(name, rdn.end, rdn.content, true)
}

/// The attributes of a name that are left. It is over after an error.
#[derive(Clone, Copy)]
pub struct NameAttributes<'a> {
    name: &'a [u8],
    end: usize,
    next_offset: Option<usize>,
}

impl<'a> NameAttributes<'a> {
    /// The attributes of the name that an element is. Error: `Tag` if it is no `SEQUENCE`.
    pub fn parse(bytes: &'a [u8], element: Element) -> Result<NameAttributes<'a>>
        ensures { Gives name_left result (whole_name bytes.entry.now element) }
    {
        Ok(NameAttributes {
            name: part_of(bytes, element, SEQUENCE)?,
            end: 0,
            next_offset: Some(element.content),
        })
    }
}

impl<'a> Iterator for NameAttributes<'a> {
    type Item = Result<NameAttribute>;

    ghost next_gives = { λ s r t. Steps first_name_attribute (name_left s) r (name_left t) };

    ghost remaining = { λ s. at_most (most_attributes (name_left s)) };

    #[tactic(auto, unfolding(crate::specs::Names::first_name_attribute))]
    fn next(&mut self) -> Option<Result<NameAttribute>> {
        let offset = self.next_offset?;
        self.next_offset = None;
        if self.end <= offset && self.name.len() <= offset {
            return None;
        }
        match name_attribute_at(self.name, self.end, offset) {
            Ok((attribute, (end, next))) => {
                self.end = end;
                self.next_offset = Some(next);
                Some(Ok(attribute))
            }
            Err(error) => Some(Err(error)),
        }
    }
}
