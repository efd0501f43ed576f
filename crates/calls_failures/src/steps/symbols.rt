//! Why the name of a symbol is refused.

ghost use Rattle.std.specs.Prelude.{◌≡◌};
ghost use Rattle.calls_headers.specs.Coff.{symbol_name_at};
ghost use Rattle.calls_base.specs.FailureNumbers.{failure_by, refused};
ghost use Rattle.calls_failures.specs.StepFailures.{string_offset_at, symbol_name_numbers};

use calls_base::numbers::{
    ErrorNumbers, Failure, SHORT, STRING_TABLE, failure_with, needed_in, no_numbers, numbers,
    refused, u32_there,
};
use calls_base::ranges::{Range, bytes_there};
use calls_headers::coff::symbol_name_at;
use pe_core::SIZE_OF_SYMBOL;

/// Where in an entry the offset of its name in the string table is.
const OFFSET_IN_ENTRY: usize = 4;

/// The offset of the name in the string table that stands in an entry, 0 where the entry is not there.
fn string_offset_at(bytes: &[u8], table: &Range, index: u64) -> u32
    ensures { result ≡ string_offset_at bytes.now table.now index }
{
    let entries = bytes_there(bytes, table);
    if index <= (entries.len() / SIZE_OF_SYMBOL) as u64 {
        u32_there(entries, SIZE_OF_SYMBOL * index as usize + OFFSET_IN_ENTRY)
    } else {
        0
    }
}

/// The numbers of the failure of the name of the symbol in an entry.
#[tactic(auto, unfolding(crate::specs::StepFailures::symbol_name_numbers))]
pub fn symbol_name_numbers(
    bytes: &[u8],
    table: &Range,
    strings: &Range,
    index: u64,
    number: u32,
) -> ErrorNumbers
    ensures { result ≡ symbol_name_numbers bytes.now table.now strings.now index number }
{
    match number {
        SHORT => needed_in(bytes, strings, table.offset, table.length),
        STRING_TABLE => numbers(u64::from(string_offset_at(bytes, table, index)), 0, 0),
        _ => no_numbers(),
    }
}

pub fn symbol_name_failure(
    bytes: &[u8],
    table: &Range,
    strings: &Range,
    index: u64,
) -> Option<Failure>
    ensures { result ≡ failure_by (symbol_name_numbers bytes.now table.now strings.now index)
        (refused (symbol_name_at bytes.now table.now strings.now index)) }
{
    match refused(symbol_name_at(bytes, table, strings, index)) {
        Some(number) => {
            let numbers = symbol_name_numbers(bytes, table, strings, index, number);
            Some(failure_with(number, numbers))
        }
        None => None,
    }
}
