//! Why the unwind record of an x64 function is refused, or one of its codes.

ghost use Rattle.std.specs.Prelude.{◌≡◌, ◌≤◌, ◌%◌, Some, None, if◌then◌else◌};
ghost use Rattle.pe_core.specs.Bytes.{holds};
ghost use Rattle.pe_unwind.specs.Links.{next};
ghost use Rattle.calls_base.specs.FailureNumbers.{failure_by, needed_at, refused};
ghost use Rattle.calls_failures.specs.UnwindFailures.{IsWhyOfCode, IsWhyOfRecord, LinksEnd, code_needs, code_numbers, ending_size, first_truncated, found_needs, record_numbers, record_parts, slots_of_code, table_there};
ghost use Rattle.calls_unwind.specs.Unwinding.{flat_answer};
ghost use Rattle.calls_base.specs.Views.{map_of};

use calls_base::numbers::{
    ErrorNumbers, FUNCTION_CYCLE, FUNCTION_LINK, Failure, SHORT, UNMAPPED, UNWIND_CODE,
    UNWIND_VERSION, failure_with, needed_at, needed_in, no_numbers, refused, refused_value,
    u8_there,
};
use calls_base::ranges::{Range, bytes_there};
use calls_base::view::{View, map_by};
use calls_unwind::unwinding::{CodeWalk, linked_offset, next_code, read_record};
use pe_core::{Error, Reason, Result, read_u8, read_u32, require_bytes};
use pe_unwind::UnwindCode;

/// The size of an entry of the function table in bytes.
const SIZE_OF_FUNCTION: usize = 12;

/// Where in such an entry the unwind RVA is.
const UNWIND_IN_FUNCTION: usize = 8;

/// The size of a slot of a code in bytes.
const SIZE_OF_SLOT: usize = 2;

// The opcodes of codes that have more than one slot, by winnt.h's names.
const UWOP_ALLOC_LARGE: u8 = 1;

const UWOP_SAVE_NONVOL: u8 = 4;

const UWOP_SAVE_NONVOL_FAR: u8 = 5;

const UWOP_EPILOG: u8 = 6;

const UWOP_SPARE_CODE: u8 = 7;

const UWOP_SAVE_XMM128: u8 = 8;

const UWOP_SAVE_XMM128_FAR: u8 = 9;

/// That so many bytes are needed at an offset, where they are not all there.
pub fn truncated(bytes: &[u8], offset: usize, needed: usize) -> Option<ErrorNumbers>
    ensures { result ≡ (if holds bytes.now offset needed then None
        else Some (needed_at offset needed)) }
{
    match require_bytes(bytes, offset, needed) {
        Ok(()) => None,
        Err(_) => Some(needed_at(offset as u64, needed as u64)),
    }
}

/// The unwind RVA of the entry of the function table to which an unwind RVA is a link.
#[tactic(auto, unfolding(pe_unwind::specs::Links::next, pe_unwind::specs::Links::link, pe_unwind::specs::Links::link_entry_at))]
fn next_link(view: &View, table: &Range, unwind: u32) -> Option<u32>
    ensures { result ≡ next (table_there (map_of view.now) view.now.bytes.now table.now) unwind }
{
    if unwind % 2 == 0 {
        return None;
    }
    let entries = bytes_there(view.bytes, table);
    let offset = map_by(view, unwind - 1)?;
    let start = table.offset as usize;
    if offset < start || (offset - start) % SIZE_OF_FUNCTION != 0 {
        return None;
    }
    let index = (offset - start) / SIZE_OF_FUNCTION;
    if entries.len() / SIZE_OF_FUNCTION <= index {
        return None;
    }
    Some(read_u32(entries, SIZE_OF_FUNCTION * index + UNWIND_IN_FUNCTION))
}

/// The unwind RVA at which the links from another one end. `None` where they never do: there are more than entries.
#[tactic(auto, using(crate::proofs::UnwindFailures::one_more_link, crate::proofs::UnwindFailures::ends_here, crate::proofs::UnwindFailures::endless))]
fn last_link(view: &View, table: &Range, unwind: u32) -> Option<u32>
    ensures { LinksEnd (table_there (map_of view.now) view.now.bytes.now table.now) unwind result }
{
    let entries = bytes_there(view.bytes, table).len() / SIZE_OF_FUNCTION;
    let mut last = unwind;
    for _ in 0..entries + 1 {
        match next_link(view, table, last) {
            Some(next) => last = next,
            None => return Some(last),
        }
    }
    None
}

/// The same. Links that never end are told as `pe_c_unwind_record` tells them: after about as many as a loop has, while more than
/// entries would be followed above.
#[tactic(auto, using(crate::proofs::UnwindFailures::linked_endless))]
fn links_end(view: &View, table: &Range, unwind: u32) -> Option<u32>
    ensures { LinksEnd (table_there (map_of view.now) view.now.bytes.now table.now) unwind result }
{
    match linked_offset(view.bytes, table, view, unwind) {
        Err(Error::Malformed(Reason::FunctionCycle(_))) => None,
        _ => last_link(view, table, unwind),
    }
}

/// The size in bytes of what follows the codes of a record with these flags.
fn ending_size(flags: u8) -> usize
    ensures size { result ≡ ending_size flags }
    ensures small { result ≤ 12 }
{
    if flags / 4 % 2 == 1 {
        SIZE_OF_FUNCTION
    } else if flags % 2 == 1 || flags / 2 % 2 == 1 {
        4
    } else {
        0
    }
}

/// What is needed of the record at an offset: its first part that is truncated.
#[tactic(auto, unfolding(crate::specs::UnwindFailures::record_parts))]
fn record_needs(bytes: &[u8], offset: usize) -> ErrorNumbers
    ensures { result ≡ first_truncated bytes.now (record_parts bytes.now offset) }
{
    if let Some(numbers) = truncated(bytes, offset, 1) {
        return numbers;
    }
    if let Some(numbers) = truncated(bytes, offset, 4) {
        return numbers;
    }
    let count = usize::from(read_u8(bytes, offset + 2));
    if let Some(numbers) = truncated(bytes, offset + 4, SIZE_OF_SLOT * count) {
        return numbers;
    }
    let after = offset + 4 + SIZE_OF_SLOT * (count + count % 2);
    let flags = read_u8(bytes, offset) / 8;
    truncated(bytes, after, ending_size(flags)).unwrap_or(no_numbers())
}

/// The same of a record that is found by the function table at a range, whose bytes are read first.
fn found_needs(bytes: &[u8], table: &Range, offset: usize) -> ErrorNumbers
    ensures { result ≡ found_needs bytes.now table.now offset }
{
    match truncated(bytes, table.offset as usize, table.length as usize) {
        Some(numbers) => numbers,
        None => record_needs(bytes, offset),
    }
}

/// The numbers of the failure of the record of an unwind RVA, whose links end at `last`.
#[tactic(auto, unfolding(crate::specs::UnwindFailures::record_numbers))]
fn record_numbers(
    view: &View,
    table: &Range,
    unwind: u32,
    last: Option<u32>,
    number: u32,
) -> ErrorNumbers
    ensures { result ≡ record_numbers (map_of view.now) view.now.bytes.now table.now unwind last number }
{
    let end = last.unwrap_or(0);
    let offset = map_by(view, end).unwrap_or(0);
    match number {
        SHORT => found_needs(view.bytes, table, offset),
        UNMAPPED => refused_value(u64::from(end - end % 2)),
        FUNCTION_LINK => refused_value(u64::from(end)),
        FUNCTION_CYCLE => refused_value(u64::from(unwind)),
        UNWIND_VERSION => refused_value(u64::from(u8_there(view.bytes, offset) % 8)),
        _ => no_numbers(),
    }
}

/// The failure of that record, if it has the number of what refuses it.
fn failure_of_record(
    view: &View,
    table: &Range,
    unwind: u32,
    last: Option<u32>,
    number: Option<u32>,
) -> Option<Failure>
    ensures { result ≡ failure_by (record_numbers (map_of view.now) view.now.bytes.now table.now unwind last) number }
{
    match number {
        Some(number) => {
            let numbers = record_numbers(view, table, unwind, last, number);
            Some(failure_with(number, numbers))
        }
        None => None,
    }
}

#[tactic(auto, using(crate::proofs::UnwindFailures::why_of_record))]
pub fn record_failure(view: &View, table: &Range, unwind: u32) -> Option<Failure>
    ensures { IsWhyOfRecord (map_of view.now) view.now.bytes.now table.now unwind result }
{
    let number = refused(read_record(view.bytes, table, view, unwind));
    let last = links_end(view, table, unwind);
    failure_of_record(view, table, unwind, last, number)
}

/// How many slots a code has, by the version of its record, its opcode and its operation info.
#[tactic(auto, unfolding(crate::specs::UnwindFailures::slots_of_code))]
fn slots_of_code(version: u8, opcode: u8, info: u8) -> usize
    ensures slots { result ≡ slots_of_code version opcode info }
    ensures small { result ≤ 3 }
{
    match opcode {
        UWOP_ALLOC_LARGE => if info == 0 { 2 } else { 3 },
        UWOP_SAVE_NONVOL | UWOP_SAVE_XMM128 => 2,
        UWOP_EPILOG if version == 1 => 2,
        UWOP_SAVE_NONVOL_FAR | UWOP_SAVE_XMM128_FAR | UWOP_SPARE_CODE => 3,
        _ => 1,
    }
}

/// How many bytes are needed of the code at the start of these.
#[tactic(auto, unfolding(crate::specs::UnwindFailures::code_needs))]
fn code_needs(version: u8, bytes: &[u8]) -> u64
    ensures { result ≡ code_needs version bytes.now }
{
    if bytes.len() < SIZE_OF_SLOT {
        return SIZE_OF_SLOT as u64;
    }
    let second = read_u8(bytes, 1);
    (SIZE_OF_SLOT * slots_of_code(version, second % 16, second / 16)) as u64
}

/// The numbers of the failure of the code that a walk is at.
#[tactic(auto, unfolding(crate::specs::UnwindFailures::code_numbers))]
fn code_numbers(bytes: &[u8], walk: &CodeWalk, number: u32) -> ErrorNumbers
    ensures { result ≡ code_numbers bytes.now walk.now number }
{
    let left = bytes_there(bytes, &walk.left);
    match number {
        SHORT => {
            let needed = code_needs(walk.version, left);
            needed_in(bytes, &walk.left, walk.left.offset, needed)
        }
        UNWIND_CODE => refused_value(u64::from(u8_there(left, 1))),
        _ => no_numbers(),
    }
}

/// The failure of that code, if it has the number of what refuses it.
fn failure_of_code(bytes: &[u8], walk: &CodeWalk, number: Option<u32>) -> Option<Failure>
    ensures { result ≡ failure_by (code_numbers bytes.now walk.now) number }
{
    match number {
        Some(number) => Some(failure_with(number, code_numbers(bytes, walk, number))),
        None => None,
    }
}

/// What refuses a step over codes, if something does.
fn step_refused(step: Option<Result<UnwindCode>>) -> Option<u32>
    ensures { result ≡ refused (flat_answer step) }
{
    match step {
        Some(code) => refused(code),
        None => None,
    }
}

#[tactic(auto, using(crate::proofs::UnwindFailures::why_of_code))]
pub fn code_failure(bytes: &[u8], walk: &CodeWalk) -> Option<Failure>
    ensures { IsWhyOfCode bytes.now walk.now result }
{
    let mut after = *walk;
    let number = step_refused(next_code(bytes, &mut after));
    failure_of_code(bytes, walk, number)
}
