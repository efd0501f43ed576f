//! How long version information is that is written of records, and whether its blocks can be written. Nothing is written here, so
//! what is refused changes nothing.

ghost use Rattle.std.specs.Prelude.{◌≡◌, ◌%◌, ◌+◌, ◌<◌, ◌≤◌, length, map};
ghost use Rattle.pe_version.specs.VersionRecords.{Measured, capped, capped_length_of, pair_of, table_made, table_of, tables_made, text_of, texts_made, value_of, variables_made};
ghost use Rattle.pe_version.specs.VersionRefusals.{VersionReturns, block_of, length_of};
ghost use Rattle.pe_version.specs.VersionValues.{text_block, version_of};
ghost use Rattle.pe_version.specs.WrittenBlocks.{BlockValue};

use crate::block::{MOST, NewBlock, UNIT, block_len, key_fits};
use crate::error::VersionError;
use crate::record::{LanguageRecord, StringRecord, TableRecord, VersionRecords, part_of};
use crate::version::{key_of, root_key, strings_key, translation_key, variables_key};
use pe_core::rounded_up;

/// A sum of numbers of bytes, or 65,536 where it is more.
fn sum_of(sum: usize, more: usize) -> usize
    ensures { result ≡ capped (sum + more) }
{
    if sum <= MOST && more <= MOST - sum {
        sum + more
    } else {
        MOST + 1
    }
}

/// The length of the block of a string, with the zeros after it. Errors: those of `block_len`.
fn text_len(texts: &[u8], record: &StringRecord) -> Result<usize, VersionError>
    ensures { VersionReturns result (length_of (block_of
        (text_block (text_of texts.now record.now)))) }
{
    let block = NewBlock {
        key: part_of(texts, &record.name),
        is_text: true,
        value: part_of(texts, &record.text),
        children: &[],
    };
    block_len(&block)
}

/// The length of the blocks of some strings.
fn texts_len(texts: &[u8], records: &[StringRecord]) -> Result<usize, VersionError>
    ensures { VersionReturns result
        (capped_length_of (texts_made (map (text_of texts.now) records.now))) }
{
    let mut sum = 0;
    for index in 0..records.len() {
        let size = text_len(texts, &records[index])?;
        sum = sum_of(sum, size);
    }
    Ok(sum)
}

/// The length of a block whose value has so many bytes, a multiple of four, and the blocks in it so many; with the zeros after it.
fn whole_len(key: &[u8], value: usize, children: usize) -> Result<usize, VersionError>
    requires key { length key.now < 65536 }
    requires value { value < 1048576 }
    requires children { children ≤ 65536 }
    ensures { (k : BlockValue) → Measured k key.now value children →
        VersionReturns result (length_of (block_of k)) }
{
    if !key_fits(key) {
        return Err(VersionError::Key);
    }
    let end = rounded_up(8 + key.len(), UNIT) + value + children;
    if end > MOST {
        return Err(VersionError::TooLong(end));
    }
    Ok(rounded_up(end, UNIT))
}

/// The length of the block of a table, with its strings.
fn table_len(
    texts: &[u8],
    strings: &[StringRecord],
    table: &TableRecord,
) -> Result<usize, VersionError>
    ensures { VersionReturns result (length_of (table_made
        (table_of texts.now strings.now table.now))) }
{
    let children = texts_len(texts, table.strings(strings))?;
    whole_len(&key_of(table.language.pair()), 0, sum_of(children, 0))
}

/// The length of the blocks of some tables.
fn tables_len(
    texts: &[u8],
    strings: &[StringRecord],
    tables: &[TableRecord],
) -> Result<usize, VersionError>
    ensures { VersionReturns result
        (capped_length_of (tables_made (map (table_of texts.now strings.now) tables.now))) }
{
    let mut sum = 0;
    for index in 0..tables.len() {
        let size = table_len(texts, strings, &tables[index])?;
        sum = sum_of(sum, size);
    }
    Ok(sum)
}

/// The length of the block with the languages and code pages, in the one that has it.
fn variables_len(translations: &[LanguageRecord]) -> Result<usize, VersionError>
    ensures { VersionReturns result
        (length_of (variables_made (map pair_of translations.now))) }
{
    let count = translations.len();
    if count > MOST {
        return Err(VersionError::TooLong(count));
    }
    let inner = whole_len(translation_key(), 4 * count, 0)?;
    whole_len(variables_key(), 0, sum_of(inner, 0))
}

/// The length of version information with its blocks.
pub fn measured(value: &VersionRecords<'_>) -> Result<usize, VersionError>
    ensures { VersionReturns result (length_of (version_of (value_of value.now))) }
{
    let tables = tables_len(value.texts, value.strings, value.tables)?;
    let strings = whole_len(strings_key(), 0, sum_of(tables, 0))?;
    let variables = variables_len(value.translations)?;
    whole_len(root_key(), 52, sum_of(strings, variables))
}
