//! Writes the blocks of version information one inside the other, without memory: what a block has comes first, where it has to be,
//! and then the head before it, with its length. The caller has checked that each block can be written and that all fit.

ghost use Rattle.std.specs.Prelude.{◌≡◌, ◌+◌, ◌*◌, ◌<◌, ◌≤◌, [], ◌∷◌, length, map};
ghost use Rattle.std.specs.List.{flat_map};
ghost use Rattle.pe_core.specs.Bytes.{bytes_of, splice};
ghost use Rattle.pe_resource.specs.VersionStrings.{up_to_four};
ghost use Rattle.pe_version.specs.VersionRecords.{head_bytes, pair_of, table_of, text_of, value_of};
ghost use Rattle.pe_version.specs.VersionValues.{all_blocks, blocks_of_table, root_block, strings_block, table_block, table_blocks, text_block, text_blocks, translation_block, translation_bytes, variables_block};
ghost use Rattle.pe_version.specs.WrittenBlocks.{AllFit, Fits, padded_block, padded_length};

use crate::block::{UNIT, type_number};
use crate::record::{LanguageRecord, StringRecord, TableRecord, VersionRecords, part_of};
use crate::version::{key_of, numbers_of, root_key, strings_key, translation_key, variables_key};
use pe_core::{rounded_up, set_slice, set_u16, set_u32, set_zeros};

/// Where the strings of a table start in its block, the tables in theirs, `Translation` in its parent, and the languages and code
/// pages in that.
const TABLE_START: usize = 24;

const STRINGS_START: usize = 36;

const VARIABLES_START: usize = 32;

const PAIRS_START: usize = 32;

/// Where the numbers are in the first block, and where the blocks in it start.
const FIXED_START: usize = 40;

const ROOT_START: usize = 92;

/// What stands before the value of a block.
#[derive(Clone, Copy)]
struct Head<'a> {
    /// The length of the block.
    size: usize,
    /// The length of its value.
    value: usize,
    is_text: bool,
    key: &'a [u8],
}

/// Writes a head, with the zeros before the value.
#[tactic(auto, using(crate::proofs::Heads::head_set))]
fn put_head(out: &mut [u8], at: usize, head: &Head<'_>)
    requires size { head.now.size < 65536 }
    requires value { head.now.value < 65536 }
    requires room { at + up_to_four (8 + length head.now.key.now) ≤ length out.old }
    ensures { out.new
        ≡ splice out.old at (head_bytes head.now.size head.now.value head.now.is_text head.now.key.now) }
{
    let end = 6 + head.key.len();
    let zeros = rounded_up(8 + head.key.len(), UNIT) - end;
    set_u16(out, at, head.size as u16);
    set_u16(out, at + 2, head.value as u16);
    set_u16(out, at + 4, type_number(head.is_text));
    set_slice(out, at + 6, head.key);
    set_zeros(out, at + end, zeros);
}

/// Writes the block of a string. Returns where it ends, with the zeros after it.
fn put_text(out: &mut [u8], at: usize, texts: &[u8], record: &StringRecord) -> usize
    requires fits { Fits (text_block (text_of texts.now record.now)) }
    requires room { at
        + padded_length (text_block (text_of texts.now record.now)) ≤ length out.old }
    ensures after { out.new
        ≡ splice out.old at (padded_block (text_block (text_of texts.now record.now))) }
    ensures end { result ≡ at + padded_length (text_block (text_of texts.now record.now)) }
{
    let key = part_of(texts, &record.name);
    let value = part_of(texts, &record.text);
    let start = rounded_up(8 + key.len(), UNIT);
    let end = rounded_up(value.len(), UNIT);
    let head = Head {
        size: start + value.len(),
        value: value.len() / 2,
        is_text: true,
        key,
    };
    put_head(out, at, &head);
    set_slice(out, at + start, value);
    set_zeros(out, at + start + value.len(), end - value.len());
    at + start + end
}

/// Writes the blocks of some strings. Returns where they end.
fn put_texts(out: &mut [u8], at: usize, texts: &[u8], records: &[StringRecord]) -> usize
    requires fits { AllFit (map text_block (map (text_of texts.now) records.now)) }
    requires room { at
        + length (text_blocks (map (text_of texts.now) records.now)) ≤ length out.old }
    ensures after { out.new
        ≡ splice out.old at (text_blocks (map (text_of texts.now) records.now)) }
    ensures end { result ≡ at + length (text_blocks (map (text_of texts.now) records.now)) }
{
    let mut end = at;
    for index in 0..records.len() {
        end = put_text(out, end, texts, &records[index]);
    }
    end
}

/// Writes the block of a table, with its strings. Returns where it ends.
fn put_table(out: &mut [u8], at: usize, value: &VersionRecords<'_>, table: &TableRecord) -> usize
    requires fits { AllFit (blocks_of_table
        (table_of value.now.texts.now value.now.strings.now table.now)) }
    requires room { at + padded_length (table_block
        (table_of value.now.texts.now value.now.strings.now table.now)) ≤ length out.old }
    ensures after { out.new ≡ splice out.old at (padded_block (table_block
        (table_of value.now.texts.now value.now.strings.now table.now))) }
    ensures end { result ≡ at + padded_length (table_block
        (table_of value.now.texts.now value.now.strings.now table.now)) }
{
    let end = put_texts(
        out,
        at + TABLE_START,
        value.texts,
        table.strings(value.strings),
    );
    let key = key_of(table.language.pair());
    let head = Head {
        size: end - at,
        value: 0,
        is_text: true,
        key: &key,
    };
    put_head(out, at, &head);
    end
}

/// Writes the blocks of the tables. Returns where they end.
fn put_tables(out: &mut [u8], at: usize, value: &VersionRecords<'_>) -> usize
    requires fits { AllFit (flat_map blocks_of_table (value_of value.now).tables) }
    requires room { at + length (table_blocks (value_of value.now).tables) ≤ length out.old }
    ensures after { out.new ≡ splice out.old at (table_blocks (value_of value.now).tables) }
    ensures end { result ≡ at + length (table_blocks (value_of value.now).tables) }
{
    let mut end = at;
    for index in 0..value.tables.len() {
        end = put_table(out, end, value, &value.tables[index]);
    }
    end
}

/// Writes the block with the tables. Returns where it ends.
fn put_strings(out: &mut [u8], at: usize, value: &VersionRecords<'_>) -> usize
    requires fits { AllFit (flat_map blocks_of_table (value_of value.now).tables) }
    requires whole { Fits (strings_block (value_of value.now).tables) }
    requires room { at
        + padded_length (strings_block (value_of value.now).tables) ≤ length out.old }
    ensures after { out.new
        ≡ splice out.old at (padded_block (strings_block (value_of value.now).tables)) }
    ensures end { result ≡ at
        + padded_length (strings_block (value_of value.now).tables) }
{
    let end = put_tables(out, at + STRINGS_START, value);
    let head = Head {
        size: end - at,
        value: 0,
        is_text: true,
        key: strings_key(),
    };
    put_head(out, at, &head);
    end
}

/// Writes languages and code pages, four bytes each.
fn put_pairs(out: &mut [u8], at: usize, translations: &[LanguageRecord])
    requires { at + 4 * length translations.now ≤ length out.old }
    ensures { out.new
        ≡ splice out.old at (flat_map translation_bytes (map pair_of translations.now)) }
{
    let mut end = at;
    for index in 0..translations.len() {
        let pair = translations[index];
        set_u16(out, end, pair.language);
        set_u16(out, end + 2, pair.code_page);
        end += 4;
    }
}

/// Writes the block with the languages and code pages, in the one that has it. Returns where it ends.
fn put_variables(out: &mut [u8], at: usize, translations: &[LanguageRecord]) -> usize
    requires inner { Fits (translation_block (map pair_of translations.now)) }
    requires outer { Fits (variables_block (map pair_of translations.now)) }
    requires room { at
        + padded_length (variables_block (map pair_of translations.now)) ≤ length out.old }
    ensures after { out.new
        ≡ splice out.old at (padded_block (variables_block (map pair_of translations.now))) }
    ensures end { result ≡ at
        + padded_length (variables_block (map pair_of translations.now)) }
{
    let size = 4 * translations.len();
    put_pairs(out, at + VARIABLES_START + PAIRS_START, translations);
    let head = Head {
        size: PAIRS_START + size,
        value: size,
        is_text: false,
        key: translation_key(),
    };
    put_head(out, at + VARIABLES_START, &head);
    let head = Head {
        size: VARIABLES_START + PAIRS_START + size,
        value: 0,
        is_text: true,
        key: variables_key(),
    };
    put_head(out, at, &head);
    at + VARIABLES_START + PAIRS_START + size
}

/// Writes numbers of four bytes each.
fn put_numbers(out: &mut [u8], at: usize, numbers: &[u32])
    requires { at + 4 * length numbers.now ≤ length out.old }
    ensures { out.new ≡ splice out.old at (flat_map (bytes_of 4) numbers.now) }
{
    let mut end = at;
    for index in 0..numbers.len() {
        set_u32(out, end, numbers[index]);
        end += 4;
    }
}

/// Writes version information at the start of the buffer.
pub fn put_version(out: &mut [u8], value: &VersionRecords<'_>)
    requires fits { AllFit (all_blocks (value_of value.now)) }
    requires room { padded_length (root_block (value_of value.now)) ≤ length out.old }
    ensures { out.new ≡ splice out.old 0 (padded_block (root_block (value_of value.now))) }
{
    let middle = put_strings(out, ROOT_START, value);
    let end = put_variables(out, middle, value.translations);
    put_numbers(out, FIXED_START, &numbers_of(value.fixed));
    let head = Head {
        size: end,
        value: ROOT_START - FIXED_START,
        is_text: false,
        key: root_key(),
    };
    put_head(out, 0, &head);
}
