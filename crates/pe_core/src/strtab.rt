//! The COFF string table: a size of 4 bytes, and NUL-terminated strings, after the COFF symbols
//! ([layout](https://learn.microsoft.com/windows/win32/debug/pe-format#coff-string-table)). Symbols with a name of more
//! than 8 bytes have its offset in this table. A caller gets it from `CoffHeader::strings`, and passes it to
//! `Symbol::name`.

ghost use Rattle.std.specs.Prelude.{◌≡◌, ◌<◌, ◌==◌, [], ◌∷◌, true, false, length, map, IfOk, IfErr, OnErr};
ghost use Rattle.std.specs.List.{before_first, after_first, list_all};
ghost use Rattle.std.specs.Str.{is_utf8};
ghost use Rattle.std.specs.Option.{option_map};
ghost use Rattle.pe_core.specs.Refusals.{Returns, ReturnsAs, ReturnsUnlessMemoryAfter, StringTable, kind_of, outcome};
ghost use Rattle.pe_core.specs.Strings.{pieces, strings_at, strings_view};

use crate::bytes::{read_u32, require_bytes};
use crate::error::{Error, Reason, Result};
use crate::first_zero::first_zero;
use crate::header::CoffHeader;
use crate::symbol::SIZE_OF_SYMBOL;
use crate::text::{from_offset, text_at, text_of};
use std::alloc::Allocator;

/// The size field before the strings, in bytes.
pub(crate) const SIZE_FIELD: usize = 4;

/// The string table of an object or image.
#[derive(Clone, Copy, Debug, PartialEq)]
pub struct Strtab<'a> {
    /// The size field of 4 bytes and the strings, a range of the bytes that were passed. Offsets of strings count from
    /// here.
    pub bytes: &'a [u8],
}

/// `StringTable` with this offset, counted from the size field.
fn no_text_at(offset: usize) -> Error
    ensures { kind_of result ≡ StringTable }
{
    Error::Malformed(Reason::StringTable(u32::try_from(offset).unwrap_or(u32::MAX)))
}

/// The bytes before the first zero, and those after it.
#[tactic(auto, using(crate::proofs::Pieces::cut_at_zero))]
fn cut_at_zero(bytes: &[u8]) -> (&[u8], &[u8])
    ensures piece { result.0.now ≡ before_first (λ c. c == 0) bytes.now }
    ensures after { result.1.now ≡ after_first (λ c. c == 0) bytes.now }
{
    match first_zero(bytes) {
        Some(n) => (&bytes[..n], from_offset(bytes, n + 1)),
        None => (bytes, &[]),
    }
}

/// The first string of `bytes`, the end of a table of `table_size` bytes, and what follows its zero. Error:
/// `StringTable` if the string is not UTF-8.
#[tactic(auto, using(crate::proofs::Pieces::first_piece))]
fn first_string(bytes: &[u8], table_size: usize) -> Result<(&str, &[u8])>
    requires { 0 < length bytes.now }
    ensures string { IfOk result (λ x. pieces bytes.now ≡ x.0.now ∷ pieces x.1.now) }
    ensures text { IfOk result (λ x. is_utf8 x.0.now ≡ true) }
    ensures less { IfOk result (λ x. length x.1.now < length bytes.now) }
    ensures none { OnErr result (list_all is_utf8 (pieces bytes.now) ≡ false) }
    ensures kind { IfErr result (λ e. kind_of e ≡ StringTable) }
{
    let (piece, after) = cut_at_zero(bytes);
    match text_of(piece) {
        Some(string) => Ok((string, after)),
        None => Err(no_text_at(table_size.saturating_sub(bytes.len()))),
    }
}

/// The number of strings in `bytes`, the end of a table of `table_size` bytes. Error: `StringTable` if one is not
/// UTF-8.
#[tactic(auto, using(crate::proofs::Pieces::no_pieces, crate::proofs::Pieces::room))]
fn count_strings(bytes: &[u8], table_size: usize) -> Result<usize>
    ensures { Returns result (outcome ((list_all is_utf8 (pieces bytes.now), StringTable) ∷ [])
        (length (pieces bytes.now))) }
{
    let mut rest = bytes;
    let mut count = 0;
    while !rest.is_empty() {
        rest = first_string(rest, table_size)?.1;
        count += 1;
    }
    Ok(count)
}

/// The string table at `offset`. `None` if that is the end of the bytes. Error: `StringTable` if it is truncated.
fn strings_at(bytes: &[u8], offset: usize) -> Result<Option<Strtab<'_>>>
    ensures { ReturnsAs strings_view result (strings_at bytes.entry.now offset) }
{
    if offset == bytes.len() {
        return Ok(None);
    }
    let left = bytes.len().saturating_sub(offset);
    if left < SIZE_FIELD {
        return Err(no_text_at(left));
    }
    let size = (read_u32(bytes, offset) as usize).max(SIZE_FIELD);
    if left < size {
        return Err(no_text_at(left));
    }
    Ok(Some(Strtab {
        bytes: &bytes[offset..offset + size],
    }))
}

impl<'a> Strtab<'a> {
    ghost use Rattle.pe_core.specs.Symbols.{string_at};
    ghost use Rattle.pe_core.specs.Strings.{all_strings};

    /// The string at this offset, counted from the size field. `None` if the offset is inside the size field or past
    /// the end, or if the string is not NUL-terminated or not UTF-8.
    pub fn string_at(&self, offset: usize) -> Option<&'a str>
        ensures { option_map (λ s. s.now) result ≡ string_at self.now.bytes.now offset }
    {
        if offset < SIZE_FIELD {
            return None;
        }
        text_at(self.bytes, offset)
    }

    /// All strings, in order, empty ones included. A last string that is not NUL-terminated counts unless it is empty.
    /// Errors, in order: `StringTable` (one is not UTF-8), `Memory`.
    #[tactic(auto, using(crate::proofs::Pieces::no_pieces, std::proofs::lemmas::Grind::common_steps))]
    pub fn to_vec<A: Allocator>(&self, alloc: A) -> Result<Vec<&'a str, A>>
        ensures { ReturnsUnlessMemoryAfter (all_strings self.now.bytes.now)
            (λ v. map (λ s. s.now) v.items) result (all_strings self.now.bytes.now) }
    {
        let table_size = self.bytes.len();
        let mut rest = from_offset(self.bytes, SIZE_FIELD);
        // Counted first: an invalid string is `StringTable` before any allocation.
        let mut strings = Vec::with_capacity(alloc, count_strings(rest, table_size)?)?;
        while !rest.is_empty() {
            let (string, after) = first_string(rest, table_size)?;
            strings.push(string)?;
            rest = after;
        }
        Ok(strings)
    }
}

impl CoffHeader {
    ghost use Rattle.pe_core.specs.Strings.{strings_of, strings_view};

    /// The string table after the COFF symbols. `None` if the header's pointer to the symbols is 0, or if the bytes end
    /// after them. A size below 4 is read as 4. Errors, in order: `Short` (the symbols are truncated, as in `symbols`),
    /// `StringTable` (the string table is truncated).
    #[tactic(auto, unfolding(crate::specs::Strings::strings_of))]
    pub fn strings<'a>(&self, bytes: &'a [u8]) -> Result<Option<Strtab<'a>>>
        ensures { ReturnsAs strings_view result (strings_of bytes.entry.now self.now) }
    {
        let symbols = self.pointer_to_symbol_table as usize;
        if symbols == 0 {
            return Ok(None);
        }
        let size = SIZE_OF_SYMBOL * self.number_of_symbol_table as usize;
        require_bytes(bytes, symbols, size)?;
        strings_at(bytes, symbols + size)
    }
}
