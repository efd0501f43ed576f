//! Resources as records of numbers, for callers whose values have no references in them. Names and contents are ranges of one
//! array of bytes.

ghost use Rattle.std.specs.Prelude.{◌≡◌, ◌≤◌, [], ◌∷◌, nat_le};
ghost use Rattle.std.specs.List.{list_all};
ghost use Rattle.pe_core.specs.Bytes.{holds};
ghost use Rattle.pe_core.specs.Refusals.{outcome};
ghost use Rattle.pe_edit.specs.RecordRefusals.{Contents, Names, Record, RecordReturns, content_length, key_is_inside, key_length, most_contents, names_length, record_fits, record_tests, sum_within};
ghost use Rattle.pe_edit.specs.Views.{key_view, leaf_view, part_of, record_key, record_leaf};
ghost use Rattle.pe_edit.specs.Written.{total};

use crate::error::RecordError;
use crate::leaf::{Resource, ResourceKey};
use pe_core::{require_bytes, slice_at};

/// The most bytes that the names of a list of records may have, each counted as often as a record has it. So what is compared is
/// bounded, even where many records share one long name.
const MOST_NAMES: u64 = 0x100_0000;

/// How often the bytes of the array and 1 MiB may be written as contents, together. So what is written is bounded, even where many
/// records share one content.
const MOST_COPIES: u64 = 16;

const ONE_MIB: u64 = 0x10_0000;

/// No section has so many bytes.
const FOUR_GIB: usize = 0x1_0000_0000;

/// A range of the array.
#[repr(C)]
#[derive(Clone, Copy)]
pub struct RecordRange {
    /// Its first byte.
    pub offset: u64,
    /// In bytes.
    pub length: u64,
}

/// The type or the name of a resource.
#[repr(C)]
#[derive(Clone, Copy)]
pub struct RecordKey {
    /// The name in UTF-16 code units, little-endian, without a final zero; of no meaning with an id.
    pub name: RecordRange,
    /// The id, by its low 16 bits; of no meaning with a name.
    pub id: u32,
    /// 0 with an id.
    pub has_name: u32,
}

/// A resource in one language.
#[repr(C)]
#[derive(Clone, Copy)]
pub struct ResourceRecord {
    /// Its type.
    pub resource_type: RecordKey,
    /// Its name, unique among the resources of its type.
    pub name: RecordKey,
    /// Its bytes.
    pub content: RecordRange,
    /// Its language, by its low 16 bits.
    pub language: u32,
    /// The code page of its texts; most linkers write 0.
    pub code_page: u32,
}

/// The bytes of a range; none where it does not lie in the array.
fn part_of<'a>(data: &'a [u8], range: &RecordRange) -> &'a [u8]
    ensures { result.now ≡ part_of data.entry.now range.now }
{
    match slice_at(data, range.offset as usize, range.length as usize) {
        Ok(part) => part,
        Err(_) => &[],
    }
}

/// Whether a range lies in the array.
fn is_inside(data: &[u8], range: &RecordRange) -> bool
    ensures { result ≡ holds data.now range.now.offset range.now.length }
{
    match require_bytes(data, range.offset as usize, range.length as usize) {
        Ok(()) => true,
        Err(_) => false,
    }
}

impl RecordKey {
    /// Whether the id has 16 bits, or the name lies in the array.
    fn fits(&self, data: &[u8]) -> bool
        ensures { result ≡ key_is_inside data.now self.now }
    {
        if self.has_name == 0 {
            self.id < 0x1_0000
        } else {
            is_inside(data, &self.name)
        }
    }

    /// How many bytes the name has; none of an id.
    fn name_length(&self) -> u64
        ensures { result ≡ key_length self.now }
    {
        if self.has_name == 0 {
            0
        } else {
            self.name.length
        }
    }

    /// The key, by the array.
    fn key<'a>(&self, data: &'a [u8]) -> ResourceKey<'a>
        ensures { key_view result ≡ record_key data.entry.now self.now }
    {
        if self.has_name == 0 {
            ResourceKey::Id((self.id % 0x1_0000) as u16)
        } else {
            ResourceKey::Name(part_of(data, &self.name))
        }
    }
}

impl ResourceRecord {
    /// Whether its ranges lie in the array, and its ids and its language have 16 bits.
    fn fits(&self, data: &[u8]) -> bool
        ensures { result ≡ record_fits data.now self.now }
    {
        self.resource_type.fits(data)
            && self.name.fits(data)
            && is_inside(data, &self.content)
            && self.language < 0x1_0000
    }

    /// The resource, by the array.
    pub(crate) fn resource<'a>(&self, data: &'a [u8]) -> Resource<'a>
        ensures { leaf_view result ≡ record_leaf data.entry.now self.now }
    {
        Resource {
            resource_type: self.resource_type.key(data),
            name: self.name.key(data),
            language: (self.language % 0x1_0000) as u16,
            code_page: self.code_page,
            content: part_of(data, &self.content),
        }
    }
}

/// The sum of a number and another, if it is at most `most`.
pub fn sum_within(most: u64, sum: u64, more: u64) -> Option<u64>
    requires { sum ≤ most }
    ensures { result ≡ sum_within most sum more }
{
    if more <= most - sum {
        Some(sum + more)
    } else {
        None
    }
}

/// The sum of a number and the lengths of both names of a record, if it is at most `MOST_NAMES`.
fn names_added(sum: u64, record: &ResourceRecord) -> Option<u64>
    requires { sum ≤ 16777216 }
    ensures { result ≡ sum_within 16777216 sum (names_length record.now) }
{
    let Some(first) = sum_within(MOST_NAMES, sum, record.resource_type.name_length()) else {
        return None;
    };
    sum_within(MOST_NAMES, first, record.name.name_length())
}

/// Tests records before they are written. Errors, in order:
/// - `Record` if a range of a record does not lie in the array, or an id or a language has more than 16 bits;
/// - `Names` if their names have more than 16 MiB, each counted as often as a record has it;
/// - `Contents` if their contents, counted in the same way, have more than 16 times the bytes of the array and of 1 MiB.
pub fn require_records(records: &[ResourceRecord], data: &[u8]) -> Result<(), RecordError>
    ensures { RecordReturns result (outcome (record_tests data.now records.now) tt) }
{
    require_fits(records, data)?;
    require_names(records)?;
    require_contents(records, data)
}

/// `Record` if a record doesn't fit.
#[tactic(auto, using(crate::proofs::Records::one_unfit, crate::proofs::Records::more_fit, crate::proofs::Records::all_fit))]
fn require_fits(records: &[ResourceRecord], data: &[u8]) -> Result<(), RecordError>
    ensures { RecordReturns result
        (outcome ((list_all (record_fits data.now) records.now, Record) ∷ []) tt) }
{
    for index in 0..records.len() {
        if !records[index].fits(data) {
            return Err(RecordError::Record(index));
        }
    }
    Ok(())
}

/// `Names` if the names of records have too many bytes.
#[tactic(auto, using(crate::proofs::Records::one_too_long, crate::proofs::Records::more_names, crate::proofs::Records::all_names))]
fn require_names(records: &[ResourceRecord]) -> Result<(), RecordError>
    ensures { RecordReturns result
        (outcome ((nat_le (total names_length records.now) 16777216, Names) ∷ []) tt) }
{
    let mut sum = 0;
    for index in 0..records.len() {
        match names_added(sum, &records[index]) {
            Some(more) => sum = more,
            None => return Err(RecordError::Names),
        }
    }
    Ok(())
}

/// The most bytes that contents may have.
fn most_contents(data: &[u8]) -> u64
    ensures { result ≡ most_contents data.now }
{
    MOST_COPIES * (ONE_MIB + data.len().min(FOUR_GIB) as u64)
}

/// `Contents` if the contents of records have too many bytes.
fn require_contents(records: &[ResourceRecord], data: &[u8]) -> Result<(), RecordError>
    ensures { RecordReturns result (outcome
        ((nat_le (total content_length records.now) (most_contents data.now), Contents) ∷ []) tt) }
{
    let most = most_contents(data);
    let mut sum = 0;
    for index in 0..records.len() {
        match sum_within(most, sum, records[index].content.length) {
            Some(more) => sum = more,
            None => return Err(RecordError::Contents),
        }
    }
    Ok(())
}
