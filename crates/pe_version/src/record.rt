//! Version information as records of numbers, for callers whose values have no references in them. Names and texts are ranges of
//! one array of bytes, the strings of a table a range of one array of strings.

ghost use Rattle.std.specs.Prelude.{◌≡◌, ◌≤◌, [], ◌∷◌, length, nat_le};
ghost use Rattle.std.specs.List.{list_all};
ghost use Rattle.pe_core.specs.Bytes.{holds};
ghost use Rattle.pe_core.specs.Refusals.{Short, outcome};
ghost use Rattle.pe_edit.specs.RecordRefusals.{sum_within};
ghost use Rattle.pe_edit.specs.Views.{part_of};
ghost use Rattle.pe_edit.specs.Written.{total};
ghost use Rattle.pe_version.specs.VersionRecords.{least_of_string, least_of_table, pair_of, record_tests, string_fits, strings_of, table_fits};
ghost use Rattle.pe_version.specs.VersionRefusals.{Image, TooLong, VersionReturns};

use crate::block::MOST;
use crate::error::VersionError;
use pe_core::{Error, require_bytes, slice_at};
use pe_edit::{RecordRange, sum_within};
use pe_resource::{Translation, VsFixedFileInfo};

/// The most bytes that a block has.
const MOST_BYTES: u64 = MOST as u64;

/// A string of version information.
#[repr(C)]
#[derive(Clone, Copy)]
pub struct StringRecord {
    /// Its name in UTF-16 code units, little-endian, without a final zero.
    pub name: RecordRange,
    /// Its text in the same way, with a final zero.
    pub text: RecordRange,
}

/// A language and a code page.
#[repr(C)]
#[derive(Clone, Copy)]
pub struct LanguageRecord {
    /// As 0x409 for English (United States).
    pub language: u16,
    /// As 1200 for UTF-16.
    pub code_page: u16,
}

/// The strings of a language and a code page.
#[repr(C)]
#[derive(Clone, Copy)]
pub struct TableRecord {
    /// The index of its first string.
    pub first: u32,
    /// How many strings it has, one after the other.
    pub count: u32,
    /// What its key is made of.
    pub language: LanguageRecord,
}

/// Version information.
#[derive(Clone, Copy)]
pub struct VersionRecords<'a> {
    /// The numbers of the file and of the product, and what the file is.
    pub fixed: &'a VsFixedFileInfo,
    /// The tables of strings, in their order.
    pub tables: &'a [TableRecord],
    /// The strings of all tables.
    pub strings: &'a [StringRecord],
    /// The languages and code pages that the file supports.
    pub translations: &'a [LanguageRecord],
    /// The bytes of the names and texts.
    pub texts: &'a [u8],
}

/// The bytes of a range; none where it does not lie in the array.
pub fn part_of<'a>(texts: &'a [u8], range: &RecordRange) -> &'a [u8]
    ensures { result.now ≡ part_of texts.entry.now range.now }
{
    match slice_at(texts, range.offset as usize, range.length as usize) {
        Ok(part) => part,
        Err(_) => &[],
    }
}

/// Whether a range lies in the array.
fn is_inside(texts: &[u8], range: &RecordRange) -> bool
    ensures { result ≡ holds texts.now range.now.offset range.now.length }
{
    match require_bytes(texts, range.offset as usize, range.length as usize) {
        Ok(()) => true,
        Err(_) => false,
    }
}

impl LanguageRecord {
    /// The same as pe_resource reads it.
    pub(crate) fn pair(self) -> Translation
        ensures { result ≡ pair_of self }
    {
        Translation {
            language: self.language,
            code_page: self.code_page,
        }
    }
}

impl StringRecord {
    fn fits(&self, texts: &[u8]) -> bool
        ensures { result ≡ string_fits texts.now self.now }
    {
        is_inside(texts, &self.name) && is_inside(texts, &self.text)
    }
}

impl TableRecord {
    /// Whether its strings are among so many.
    fn fits(&self, strings: usize) -> bool
        ensures { result ≡ table_fits strings self.now }
    {
        self.first as usize + self.count as usize <= strings
    }

    /// Its strings; none where they are not all there.
    pub(crate) fn strings<'a>(&self, strings: &'a [StringRecord]) -> &'a [StringRecord]
        ensures { result.now ≡ strings_of strings.entry.now self.now }
    {
        let start = self.first as usize;
        let end = start + self.count as usize;
        if end <= strings.len() {
            &strings[start..end]
        } else {
            &[]
        }
    }
}

fn strings_fit(strings: &[StringRecord], texts: &[u8]) -> bool
    ensures { result ≡ list_all (string_fits texts.now) strings.now }
{
    for index in 0..strings.len() {
        if !strings[index].fits(texts) {
            return false;
        }
    }
    true
}

fn tables_fit(tables: &[TableRecord], strings: usize) -> bool
    ensures { result ≡ list_all (table_fits strings) tables.now }
{
    for index in 0..tables.len() {
        if !tables[index].fits(strings) {
            return false;
        }
    }
    true
}

/// The sum of a number and the least bytes of the block of a string.
fn string_added(sum: u64, string: &StringRecord) -> Option<u64>
    requires { sum ≤ 65535 }
    ensures { result ≡ sum_within 65535 sum (least_of_string string.now) }
{
    let Some(head) = sum_within(MOST_BYTES, sum, 8) else {
        return None;
    };
    let Some(named) = sum_within(MOST_BYTES, head, string.name.length) else {
        return None;
    };
    sum_within(MOST_BYTES, named, string.text.length)
}

/// The sum of a number and those of some strings.
fn strings_added(sum: u64, strings: &[StringRecord]) -> Option<u64>
    requires { sum ≤ 65535 }
    ensures { result ≡ sum_within 65535 sum (total least_of_string strings.now) }
{
    let mut end = sum;
    for index in 0..strings.len() {
        match string_added(end, &strings[index]) {
            Some(more) => end = more,
            None => return None,
        }
    }
    Some(end)
}

/// The sum of a number and the least bytes of the block of a table.
fn table_added(sum: u64, strings: &[StringRecord], table: &TableRecord) -> Option<u64>
    requires { sum ≤ 65535 }
    ensures { result ≡ sum_within 65535 sum (least_of_table strings.now table.now) }
{
    let Some(head) = sum_within(MOST_BYTES, sum, 24) else {
        return None;
    };
    strings_added(head, table.strings(strings))
}

/// `TooLong` if the blocks of all tables are too long by their least bytes. No more strings are read than a block can have, even
/// where tables share them.
fn require_short(tables: &[TableRecord], strings: &[StringRecord]) -> Result<(), VersionError>
    ensures { VersionReturns result (outcome
        ((nat_le (total (least_of_table strings.now) tables.now) 65535, TooLong) ∷ []) tt) }
{
    let mut end = 0;
    for index in 0..tables.len() {
        match table_added(end, strings, &tables[index]) {
            Some(more) => end = more,
            None => return Err(VersionError::TooLong(MOST + 1)),
        }
    }
    Ok(())
}

/// Errors, in order: `Image` with `Short` if a range of a record does not lie in its array, at the end of that array; `TooLong` if
/// the blocks of the tables have more than 65,535 bytes, by the lengths of names and texts.
pub fn require_records(value: &VersionRecords<'_>) -> Result<(), VersionError>
    ensures { VersionReturns result (outcome (record_tests value.now) tt) }
{
    let (texts, strings) = (value.texts.len(), value.strings.len());
    if !strings_fit(value.strings, value.texts) {
        return Err(VersionError::Image(Error::Short {
            at: texts,
            needed: 1,
        }));
    }
    if !tables_fit(value.tables, strings) {
        return Err(VersionError::Image(Error::Short {
            at: strings,
            needed: 1,
        }));
    }
    require_short(value.tables, value.strings)
}
