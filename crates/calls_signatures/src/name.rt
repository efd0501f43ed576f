//! Names of issuers and subjects ([RFC 5280](https://www.rfc-editor.org/rfc/rfc5280), 4.1.2.4): a walk over their attributes, one
//! after the other through all relative distinguished names.

ghost use Rattle.std.specs.Prelude.{◌≡◌};
ghost use Rattle.calls_signatures.specs.NameWalks.{name_in, name_after, name_attribute_part, name_reported, next_name_attribute, whole_name_at};

use crate::elements::{Oid, content_range, oid_part};
use crate::refused::{Parsed, Read, element_in, up_to_range};
use calls_base::ranges::{NO_BYTES, Range};
use pe_pkcs7::{Element, NameAttribute, SignatureError, name_attribute_at, name_number};

/// A walk over the attributes of a name.
#[repr(C)]
#[derive(Clone, Copy)]
pub struct NameWalk {
    /// The bytes of the name that are left.
    pub left: Range,
    /// Where the relative distinguished name ends that is read.
    pub rdn_end: u64,
}

/// An attribute of a name.
#[repr(C)]
#[derive(Clone, Copy)]
pub struct NamePart {
    /// Of the group of attributes of names.
    pub kind: Oid,
    /// The content of the value.
    pub value: Range,
    /// The tag of the value.
    pub tag: u32,
    /// 1 where it is the first of its relative distinguished name, else 0.
    pub starts_rdn: u32,
}

/// The tag of a `SEQUENCE`.
const SEQUENCE: u8 = 0x30;

/// A walk that is over.
const NO_NAME: NameWalk = NameWalk {
    left: NO_BYTES,
    rdn_end: 0,
};

/// The walk over the name that an element is. Error: `Tag` if it is no `SEQUENCE`.
fn whole_name_at(element: Element) -> Parsed<NameWalk>
    ensures { result ≡ whole_name_at element }
{
    if element.tag != SEQUENCE {
        return Err(SignatureError::Tag {
            offset: element.offset,
            expected: SEQUENCE,
            found: element.tag,
        });
    }
    Ok(NameWalk {
        left: content_range(element),
        rdn_end: 0,
    })
}

pub fn read_name(bytes: &[u8], range: &Range) -> Read<NameWalk>
    ensures { result ≡ name_in bytes.now range.now }
{
    let element = element_in(bytes, range)?;
    Ok(whole_name_at(element)?)
}

/// An attribute as callers get it.
fn name_attribute_part(bytes: &[u8], attribute: NameAttribute) -> NamePart
    ensures { result ≡ name_attribute_part bytes.now attribute }
{
    let NameAttribute {
        kind,
        value,
        starts_rdn,
    } = attribute;
    NamePart {
        kind: oid_part(kind, name_number(kind.content_of(bytes))),
        value: content_range(value),
        tag: u32::from(value.tag),
        starts_rdn: u32::from(starts_rdn),
    }
}

/// The attribute that stands first in what a walk has left, if any is left, with the end of its relative distinguished name and
/// where what follows starts.
#[tactic(auto, unfolding(crate::specs::NameWalks::next_name_attribute))]
pub fn next_name_attribute(
    bytes: &[u8],
    walk: &NameWalk,
) -> Read<Option<(NameAttribute, (usize, usize))>>
    ensures { result ≡ next_name_attribute bytes.now walk.now }
{
    let name = up_to_range(bytes, &walk.left)?;
    if walk.left.length == 0 {
        return Ok(None);
    }
    Ok(Some(name_attribute_at(name, walk.rdn_end as usize, walk.left.offset as usize)?))
}

/// The walk after a step.
pub fn name_after(walk: NameWalk, step: Read<Option<(NameAttribute, (usize, usize))>>) -> NameWalk
    ensures { result ≡ name_after walk step }
{
    match step {
        Ok(Some((_, (end, next)))) => NameWalk {
            left: Range {
                offset: next as u64,
                length: walk
                    .left
                    .length
                    .saturating_sub((next as u64).saturating_sub(walk.left.offset)),
            },
            rdn_end: end as u64,
        },
        Ok(None) => walk,
        Err(_) => NO_NAME,
    }
}

/// What a step returns.
pub fn name_reported(
    bytes: &[u8],
    step: Read<Option<(NameAttribute, (usize, usize))>>,
) -> Read<Option<NamePart>>
    ensures { result ≡ name_reported bytes.now step }
{
    match step {
        Ok(Some((attribute, _))) => Ok(Some(name_attribute_part(bytes, attribute))),
        Ok(None) => Ok(None),
        Err(refused) => Err(refused),
    }
}
