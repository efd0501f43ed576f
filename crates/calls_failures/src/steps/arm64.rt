//! Why the unwind record of an ARM64 function is refused, or one of its codes.

ghost use Rattle.std.specs.Prelude.{◌≡◌, ◌+◌, ◌*◌, ◌≤◌};
ghost use Rattle.pe_unwind.specs.Arm64Record.{code_words, extension_view, scope_count};
ghost use Rattle.calls_unwind.specs.Arm64.{arm64_record_of};
ghost use Rattle.calls_failures.specs.Arm64Failures.{IsWhyOfArm64Code, arm64_code_numbers, arm64_parts, arm64_record_numbers};
ghost use Rattle.calls_base.specs.FailureNumbers.{failure_by, refused};
ghost use Rattle.calls_failures.specs.UnwindFailures.{first_truncated};
ghost use Rattle.calls_base.specs.Views.{map_of};

use crate::steps::unwinding::truncated;
use calls_base::image::{EXCEPTION_TABLE, directory};
use calls_base::numbers::{
    ARM64_CUT, ARM64_STREAM, ARM64_VERSION, EXCEPTION_BOUNDS, EXCEPTION_OFFSET, EXCEPTION_SIZE,
    ErrorNumbers, Failure, SHORT, UNMAPPED, failure_with, needed_at, no_numbers, numbers, refused,
    refused_value, u32_there,
};
use calls_base::view::{View, map_by};
use calls_unwind::arm64::codes::{Arm64CodeWalk, next_code as next_arm64_code};
use calls_unwind::arm64::records::read_record as read_arm64_record;
use pe_core::read_u32;
use pe_unwind::{Arm64RuntimeFunction, Arm64UnwindExtension, Arm64UnwindHeader};

/// The size of a word in bytes.
const SIZE_OF_WORD: usize = 4;

/// The sizes in bytes of the scopes and of the codes of a record with these words.
fn sizes_of(header: Arm64UnwindHeader, extension: Option<Arm64UnwindExtension>) -> (usize, usize)
    ensures scopes { result.0 ≡ 4 * scope_count header.0 (extension_view extension) }
    ensures codes { result.1 ≡ 4 * code_words header.0 (extension_view extension) }
    ensures few_scopes { result.0 ≤ 4 * 65535 }
    ensures few_codes { result.1 ≤ 4 * 255 }
{
    let (scopes, words) = match extension {
        Some(extension) => (extension.epilog_count(), extension.code_words()),
        None => (header.epilog_count(), header.code_words()),
    };
    let scopes = if header.epilog_in_header() { 0 } else { scopes };
    (
        SIZE_OF_WORD * scopes as usize,
        SIZE_OF_WORD * words as usize,
    )
}

/// What is needed of the record at an offset: its first part that is truncated.
#[tactic(auto, unfolding(crate::specs::Arm64Failures::arm64_parts))]
fn record_needs(bytes: &[u8], offset: usize) -> ErrorNumbers
    ensures { result ≡ first_truncated bytes.now (arm64_parts bytes.now offset) }
{
    if let Some(numbers) = truncated(bytes, offset, SIZE_OF_WORD) {
        return numbers;
    }
    let header = Arm64UnwindHeader(read_u32(bytes, offset));
    let words = offset + SIZE_OF_WORD;
    let (extension, parts) = if header.has_extension() {
        if let Some(numbers) = truncated(bytes, words, SIZE_OF_WORD) {
            return numbers;
        }
        let extension = Arm64UnwindExtension(read_u32(bytes, words));
        (Some(extension), words + SIZE_OF_WORD)
    } else {
        (None, words)
    };
    let (scopes, codes) = sizes_of(header, extension);
    if let Some(numbers) = truncated(bytes, parts, scopes) {
        return numbers;
    }
    if let Some(numbers) = truncated(bytes, parts + scopes, codes) {
        return numbers;
    }
    let handler = if header.exception_data_present() {
        SIZE_OF_WORD
    } else {
        0
    };
    truncated(bytes, parts + scopes + codes, handler).unwrap_or(no_numbers())
}

/// The numbers of the failure of a function's record.
#[tactic(auto, unfolding(crate::specs::Arm64Failures::arm64_record_numbers))]
fn record_numbers(view: &View, function: &Arm64RuntimeFunction, number: u32) -> ErrorNumbers
    ensures { result ≡ arm64_record_numbers (map_of view.now) view.now.bytes.now view.now.image.now
        function.now number }
{
    let table = directory(view.image, EXCEPTION_TABLE);
    let size = u64::from(table.size);
    let mapped = map_by(view, table.virtual_address);
    let start = mapped.unwrap_or(0) as u64;
    let rva = function.unwind_data_rva();
    let offset = map_by(view, rva).unwrap_or(0);
    match number {
        SHORT => record_needs(view.bytes, offset),
        UNMAPPED => {
            let unmapped = if mapped.is_some() {
                rva
            } else {
                table.virtual_address
            };
            refused_value(u64::from(unmapped))
        }
        EXCEPTION_SIZE => refused_value(size),
        EXCEPTION_OFFSET => numbers(start, 0, 0),
        EXCEPTION_BOUNDS => numbers(start.saturating_add(size), 0, 0),
        ARM64_VERSION => {
            let header = Arm64UnwindHeader(u32_there(view.bytes, offset));
            refused_value(u64::from(header.version()))
        }
        _ => no_numbers(),
    }
}

pub fn record_failure(view: &View, function: &Arm64RuntimeFunction) -> Option<Failure>
    ensures { result ≡ failure_by (arm64_record_numbers (map_of view.now) view.now.bytes.now
        view.now.image.now function.now) (refused
        (arm64_record_of (map_of view.now) view.now.bytes.now view.now.image.now function.now)) }
{
    match refused(read_arm64_record(view, *function)) {
        Some(number) => Some(failure_with(number, record_numbers(view, function, number))),
        None => None,
    }
}

/// The numbers of the failure of the code that a walk is at.
#[tactic(auto, unfolding(crate::specs::Arm64Failures::arm64_code_numbers))]
fn code_numbers(walk: &Arm64CodeWalk, number: u32) -> ErrorNumbers
    ensures { result ≡ arm64_code_numbers walk.now number }
{
    match number {
        SHORT => needed_at(walk.left.offset, walk.left.length),
        ARM64_STREAM => refused_value(walk.left.length),
        ARM64_CUT => numbers(walk.offset, 0, 0),
        _ => no_numbers(),
    }
}

/// The failure of that code, if it has the number of what refuses it.
fn failure_of_code(walk: &Arm64CodeWalk, number: Option<u32>) -> Option<Failure>
    ensures { result ≡ failure_by (arm64_code_numbers walk.now) number }
{
    match number {
        Some(number) => Some(failure_with(number, code_numbers(walk, number))),
        None => None,
    }
}

pub fn code_failure(bytes: &[u8], walk: &Arm64CodeWalk) -> Option<Failure>
    ensures { IsWhyOfArm64Code bytes.now walk.now result }
{
    let mut after = *walk;
    let number = refused(next_arm64_code(bytes, &mut after));
    failure_of_code(walk, number)
}
