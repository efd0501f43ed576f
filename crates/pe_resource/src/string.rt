//! Strings of version information. Each has a length, the length and the type of its value, a key in UTF-16, and a
//! value at a multiple of four bytes: a text or binary data. In Microsoft's layout
//! (<https://learn.microsoft.com/windows/win32/menurc/vs-versioninfo>) they are a tree of blocks. Here the tree is read
//! flat: the next string starts where a value ends, so a block is followed by its children.

ghost use Rattle.std.specs.Prelude.{All, EachIndex, slice_index_or, map, [], None, if◌then◌else◌, ◌≡◌, ◌+◌, ◌-◌, ◌*◌, ◌/◌, ◌==◌, ◌<◌, ◌≤◌, ◌^◌, ◌↔◌, length, OnOk, IfOk, IfSome, IsTrue, Some, take};
ghost use Rattle.std.specs.Iterator.{at_most};
ghost use Rattle.std.specs.Option.{option_map, option_or};
ghost use Rattle.pe_core.specs.Bytes.{le};
ghost use Rattle.pe_core.specs.Offsets.{IsWithin};
ghost use Rattle.pe_core.specs.Refusals.{Returns, kind_of};
ghost use Rattle.pe_resource.specs.VersionFields.{ReturnsText};
ghost use Rattle.pe_resource.specs.VersionStrings.{ParsesString, ReturnsString, VersionString, string_view, key_length, value_offset, units, before_zero, text, is_name, IsPlain, ArePlain, rest_of, strings, read, all_read, value_of, value_range, value_ranges};

use crate::constants::RESOURCE_STRING_FIELD_ALIGNMENT;
use pe_core::{ByteRange, Error, Reason, Result, read_u16, require_bytes, rounded_up};
use std::alloc::{AllocError, Allocator};

/// `text_type` of a string with a binary value.
const BINARY: u16 = 0;

/// `text_type` of a string with a text as its value.
const TEXT: u16 = 1;

/// The greatest length of a text in code units.
const MOST_UNITS: u16 = 32767;

/// The size of a string's length, value length and type in bytes.
pub(crate) const SIZE_OF_HEAD: usize = 6;

/// The size of a UTF-16 code unit in bytes.
pub(crate) const SIZE_OF_UNIT: usize = 2;

/// One string of version information. A block that contains other strings is a string too: its value is empty or the
/// fixed file information.
#[derive(Clone, Copy, Debug, PartialEq)]
pub struct ResourceString<'a> {
    /// The length of the string in bytes, with all strings that it contains, as the file states it. Parsing only tests
    /// it for 0, which ends the strings.
    pub len: u16,
    /// The length of the value: in code units if it is a text, else in bytes.
    pub value_len: u16,
    /// 1 for a text, 0 for binary data.
    pub text_type: u16,
    key: &'a [u8],
    /// The bytes of the value, with the padding to a multiple of four if that is there.
    pub value: &'a [u8],
}

/// The size in bytes of the code units at `offset`, up to the first zero code unit or the end.
#[tactic(auto, using(crate::proofs::Keys::key_more, crate::proofs::Keys::key_end, crate::proofs::Keys::key_none))]
pub(crate) fn key_length(bytes: &[u8], offset: usize) -> usize
    requires { offset ≤ length bytes.now }
    ensures key { result ≡ key_length bytes.now offset }
    ensures within { offset + result ≤ length bytes.now }
{
    let mut end = offset;
    while end + 1 < bytes.len() && read_u16(bytes, end) != 0 {
        end += SIZE_OF_UNIT;
    }
    end - offset
}

/// The size of a value in bytes, by its length and its type.
pub(crate) fn size_of_value(value_len: u16, text_type: u16) -> usize
    ensures { result ≡ (if text_type == 1 then 2 * value_len else value_len) }
{
    if text_type == TEXT {
        SIZE_OF_UNIT * usize::from(value_len)
    } else {
        usize::from(value_len)
    }
}

impl<'a> ResourceString<'a> {
    /// Reads the string at `offset`, counted in bytes from the start of `bytes`, and moves `offset` to the next string.
    /// `None` if the length is 0; `offset` then moves by 2. The value starts at a multiple of four from the start of
    /// `bytes`.
    ///
    /// Errors, in this order, each of which leaves `offset` unchanged: `Short` if the length, the value length or the
    /// type is truncated; `ResourceString` if a text has more than 32,767 code units, or if the value is truncated.
    #[tactic(auto, unfolding(crate::specs::VersionStrings::whole_string_at, crate::specs::VersionStrings::string_and_next, crate::specs::VersionStrings::lengthened, crate::specs::VersionStrings::value_offset))]
    pub fn parse(bytes: &'a [u8], offset: &mut usize) -> Result<Option<ResourceString<'a>>>
        ensures string { ParsesString bytes.entry.now offset.old result offset.new }
        ensures within { OnOk result (offset.new ≤ length bytes.entry.now) }
        ensures further { OnOk result (offset.old < offset.new) }
    {
        let start = *offset;
        require_bytes(bytes, start, 2)?;
        let len = read_u16(bytes, start);
        if len == 0 {
            *offset = start + 2;
            return Ok(None);
        }
        require_bytes(bytes, start + 2, 4)?;
        let value_len = read_u16(bytes, start + 2);
        let text_type = read_u16(bytes, start + 4);
        let key = key_length(bytes, start + SIZE_OF_HEAD);
        let key_end = start + SIZE_OF_HEAD + key + SIZE_OF_UNIT;
        let value_offset = rounded_up(key_end, RESOURCE_STRING_FIELD_ALIGNMENT);
        let size = size_of_value(value_len, text_type);
        let too_long = text_type == TEXT && MOST_UNITS < value_len;
        if too_long || bytes.len() < size || bytes.len() - size < value_offset {
            return Err(Error::Malformed(Reason::ResourceString(offset_in_refusal(start))));
        }
        let longer = rounded_up(size, RESOURCE_STRING_FIELD_ALIGNMENT);
        let size = if longer <= bytes.len() - value_offset {
            longer
        } else {
            size
        };
        *offset = value_offset + size;
        Ok(Some(ResourceString {
            len,
            value_len,
            text_type,
            key: &bytes[start + SIZE_OF_HEAD..start + SIZE_OF_HEAD + key],
            value: &bytes[value_offset..value_offset + size],
        }))
    }

    /// Whether the value is a text.
    pub fn is_text_data(&self) -> bool
        ensures { result ≡ (self.now.text_type == 1) }
    {
        self.text_type == TEXT
    }

    /// Whether the value is binary data.
    pub fn is_binary_data(&self) -> bool
        ensures { result ≡ (self.now.text_type == 0) }
    {
        self.text_type == BINARY
    }

    /// Returns the key as a text. `None` if a surrogate is unpaired. `AllocError` if memory ran out.
    pub fn key_string<A: Allocator + Copy + Drop>(
        &self,
        alloc: A,
    ) -> std::result::Result<Option<String<A>>, AllocError>
        ensures { ReturnsText result (Some (string_view self.now).key) }
    {
        text_of(alloc, self.key)
    }

    /// Returns the value as a text, up to the first zero code unit. `None` for an odd number of bytes, or if a
    /// surrogate is unpaired. `AllocError` if memory ran out.
    pub fn value_string<A: Allocator + Copy + Drop>(
        &self,
        alloc: A,
    ) -> std::result::Result<Option<String<A>>, AllocError>
        ensures { ReturnsText result (Some self.now.value.now) }
    {
        text_of(alloc, self.value)
    }

    /// Whether the text of the key is this name. The text is not built, so no memory is asked for.
    #[tactic(auto, using(crate::proofs::Names::name_whole))]
    fn has_key(&self, name: &str) -> bool
        requires plain { IsPlain name.now }
        requires whole { key_length self.now.key.now 0 ≡ length self.now.key.now }
        ensures { result ≡ is_name name.now (text (string_view self.now).key) }
    {
        same_units(self.key, name.as_bytes())
    }

    /// Keeps a range for each key that is the key of this string, where none is kept.
    fn keep_range(&self, keys: &[&str], kept: &mut [Option<ByteRange>], range: ByteRange)
        requires plain { ArePlain (map (λ key. key.now) keys.now) }
        requires whole { key_length self.now.key.now 0 ≡ length self.now.key.now }
        requires many { length kept.old ≡ length keys.now }
        ensures many { length kept.new ≡ length keys.now }
        ensures kept { EachIndex keys.now
            (λ i. slice_index_or kept.new i None ≡ option_or (slice_index_or kept.old i None)
            (if is_name (slice_index_or (map (λ key. key.now) keys.now) i [])
            (text (string_view self.now).key) then Some range else None)) }
    {
        for i in 0..keys.len() {
            if kept[i].is_none() && self.has_key(keys[i]) {
                kept[i] = Some(range);
            }
        }
    }
}

/// Whether the code units in `bytes` are the ASCII characters of `name`.
#[tactic(auto, using(crate::proofs::Units::unit_at, crate::proofs::Units::units_count, crate::proofs::Units::same_from_each))]
pub(crate) fn same_units(bytes: &[u8], name: &[u8]) -> bool
    ensures { IsTrue result ↔ (units bytes.now ≡ name.now) }
{
    if bytes.len() / SIZE_OF_UNIT != name.len() {
        return false;
    }
    for i in 0..name.len() {
        if read_u16(bytes, SIZE_OF_UNIT * i) != u16::from(name[i]) {
            return false;
        }
    }
    true
}

/// The text in `bytes`, in UTF-16 up to the first zero code unit. `None` if there is none.
#[tactic(auto, unfolding(crate::specs::VersionStrings::text))]
pub(crate) fn text_of<A: Allocator + Copy + Drop>(
    alloc: A,
    bytes: &[u8],
) -> std::result::Result<Option<String<A>>, AllocError>
    ensures { ReturnsText result (Some bytes.now) }
{
    if bytes.len() % 2 == 1 {
        return Ok(None);
    }
    let units = units_before_zero(alloc, bytes)?;
    match String::from_utf16(alloc, units.as_slice())? {
        Ok(text) => Ok(Some(text)),
        Err(_) => Ok(None),
    }
}

/// The code units before the first zero code unit.
#[tactic(auto, using(crate::proofs::Units::front_more, crate::proofs::Units::front_zero, crate::proofs::Units::front_short))]
fn units_before_zero<A: Allocator + Drop>(
    alloc: A,
    bytes: &[u8],
) -> std::result::Result<Vec<u16, A>, AllocError>
    ensures { IfOk result (λ v. v.items ≡ before_zero (units bytes.now)) }
{
    let mut units = Vec::new(alloc);
    let mut rest = bytes;
    while SIZE_OF_UNIT <= rest.len() {
        let unit = read_u16(rest, 0);
        if unit == 0 {
            return Ok(units);
        }
        units.push(unit)?;
        rest = rest.split_at(SIZE_OF_UNIT).1;
    }
    Ok(units)
}

/// An iterator over the strings of version information. It is over at a string with length 0, and after an error.
/// Offsets in an error count from the start of the string that it belongs to.
#[derive(Clone, Copy, Debug)]
pub struct ResourceStringIterator<'a> {
    bytes: &'a [u8],
}

impl<'a> ResourceStringIterator<'a> {
    /// An iterator over the strings of `data`. Each is read at the start of the bytes that the one before left, so its
    /// value is at a multiple of four from there.
    pub fn new(data: &'a [u8]) -> Self
        ensures { rest_of result ≡ data.entry.now }
    {
        ResourceStringIterator { bytes: data }
    }
}

impl<'a> Iterator for ResourceStringIterator<'a> {
    type Item = Result<ResourceString<'a>>;

    ghost next_gives = { λ s r t. ReturnsString (rest_of s) r (rest_of t) };

    ghost remaining = { λ s. at_most (length (rest_of s)) };

    fn next(&mut self) -> Option<Result<ResourceString<'a>>> {
        let bytes = self.bytes;
        if bytes.is_empty() {
            return None;
        }
        let mut offset = 0;
        match ResourceString::parse(bytes, &mut offset) {
            Ok(Some(string)) => {
                self.bytes = bytes.split_at(offset).1;
                Some(Ok(string))
            }
            Ok(None) => {
                self.bytes = &[];
                None
            }
            Err(error) => {
                self.bytes = &[];
                Some(Err(error))
            }
        }
    }
}

/// The offset of a string as it is in `Reason::ResourceString`: the greatest `u32` if it is greater.
fn offset_in_refusal(offset: usize) -> u32 {
    u32::try_from(offset).unwrap_or(u32::MAX)
}

/// The same error with its offset moved by `start`: offsets of the iterator count from a string, those of callers from
/// the start of the data.
fn counted_from(start: usize, error: Error) -> Error
    ensures { kind_of result ≡ kind_of error }
{
    match error {
        Error::Short { at, needed } => Error::Short {
            at: start.saturating_add(at),
            needed,
        },
        Error::Malformed(Reason::ResourceString(offset)) => {
            let offset = offset_in_refusal(start.saturating_add(offset as usize));
            Error::Malformed(Reason::ResourceString(offset))
        }
        other => other,
    }
}

/// Returns for each key the range of the value of the first string with this key, from the start of `data`, in one pass
/// over the strings, or the error of the first string that has one.
pub(crate) fn value_ranges<const N: usize>(
    data: &[u8],
    keys: &[&str],
) -> Result<[Option<ByteRange>; N]>
    requires many { length keys.now ≡ N }
    requires plain { ArePlain (map (λ key. key.now) keys.now) }
    ensures ranges { Returns result (value_ranges (map (λ key. key.now) keys.now) data.now) }
    ensures within { IfOk result (λ r. All (λ range. IfSome range (IsWithin data.now)) r) }
{
    let mut ranges = [None; N];
    let mut left = ResourceStringIterator::new(data);
    let mut start = 0;
    while let Some(item) = left.next() {
        match item {
            Ok(string) => {
                start = data.len() - left.bytes.len();
                // A value ends where the next string starts.
                let length = string.value.len();
                let range = ByteRange {
                    offset: start - length,
                    length,
                };
                string.keep_range(keys, &mut ranges, range);
            }
            Err(error) => return Err(counted_from(start, error)),
        }
    }
    Ok(ranges)
}
