//! What is wrong with headers that a call refuses: where it is, how many bytes are needed there, the number that stands there. A
//! tool that tells its user why a file is no image says `invalid magic number 0x4d5b at offset 0`, and not only what kind of
//! error there is.
//!
//! The result of a call is one number. These calls test the same again, and return the first failure.

ghost use Rattle.std.specs.Prelude.{◌≡◌, ◌+◌, ◌≤◌, ◌<◌, ◌^◌, length, IfNone, Ok, if◌then◌else◌, Some, None};
ghost use Rattle.pe_core.specs.Bytes.{holds};
ghost use Rattle.calls_failures.specs.Failures.{dos_failures, failure_at, first_failure, image_failure, optional_failure, optional_failures, pe_failures, rows_failures, te_failures, truncated_at};
ghost use Rattle.calls_base.specs.HandsOut.{HandsOutIf};
ghost use Rattle.calls_base.specs.Modes.{mode_of_number};

use calls_base::numbers::Failure;
use calls_base::results::{DONE, NOTHING, options};
use pe_core::{
    DOS_MAGIC, MAGIC_32, MAGIC_64, PE_MAGIC, ParseMode, SIZE_OF_TE_HEADER, TE_MAGIC, read_u16,
    read_u32, require_bytes,
};

// The results of headers, as `results` has them.
const SHORT: u32 = 2;

const BAD_MAGIC: u32 = 3;

const HEADER_POINTER: u32 = 4;

const TE_SIZE: u32 = 31;

/// The failure with a number, of so many bytes at an offset, which hold a value.
fn failure_at(number: u32, offset: usize, needed: usize, value: u32) -> Failure
    ensures { result ≡ failure_at number offset needed value }
{
    Failure {
        offset: offset as u64,
        needed: needed as u64,
        value: u64::from(value),
        result: number,
        spare: 0,
    }
}

/// The failure of a read of so many bytes at an offset.
fn truncated(bytes: &[u8], offset: usize, needed: usize) -> Option<Failure>
    ensures { result ≡ (if holds bytes.now offset needed then None
        else Some (truncated_at offset needed)) }
{
    match require_bytes(bytes, offset, needed) {
        Ok(()) => None,
        Err(_) => Some(failure_at(SHORT, offset, needed, 0)),
    }
}

fn dos_failure(bytes: &[u8], mode: u32) -> Option<Failure>
    ensures failure { result ≡ first_failure (dos_failures bytes.now (mode_of_number mode)) }
    ensures there { IfNone result (64 ≤ length bytes.now) }
{
    if let Some(failure) = truncated(bytes, 0, 64) {
        return Some(failure);
    }
    let signature = read_u16(bytes, 0);
    if signature != DOS_MAGIC {
        return Some(failure_at(BAD_MAGIC, 0, 2, u32::from(signature)));
    }
    let pointer = read_u32(bytes, 60);
    match options(mode).parse_mode {
        ParseMode::Strict if pointer < 64 => Some(failure_at(HEADER_POINTER, 60, 4, pointer)),
        _ => None,
    }
}

/// The failure of the PE signature at an offset, or of the COFF header after it.
fn pe_failure(bytes: &[u8], offset: usize) -> Option<Failure>
    requires { offset < 2 ^ 32 }
    ensures failure { result ≡ first_failure (pe_failures bytes.now offset) }
    ensures there { IfNone result (offset + 24 ≤ length bytes.now) }
{
    if let Some(failure) = truncated(bytes, offset, 4) {
        return Some(failure);
    }
    let signature = read_u32(bytes, offset);
    if signature != PE_MAGIC {
        return Some(failure_at(BAD_MAGIC, offset, 4, signature));
    }
    truncated(bytes, offset + 4, 20)
}

/// The failure of an optional header at an offset.
fn fields_failure(bytes: &[u8], offset: usize) -> Option<Failure>
    requires { offset < 2 ^ 33 }
    ensures { result ≡ first_failure (optional_failures bytes.now offset) }
{
    if let Some(failure) = truncated(bytes, offset, 2) {
        return Some(failure);
    }
    let magic = read_u16(bytes, offset);
    let size = if magic == MAGIC_64 {
        112
    } else if magic == MAGIC_32 {
        96
    } else {
        return Some(failure_at(BAD_MAGIC, offset, 2, u32::from(magic)));
    };
    if let Some(failure) = truncated(bytes, offset, size) {
        return Some(failure);
    }
    // The last field is the number of directories, of which at most 16 are kept.
    let count = read_u32(bytes, offset + (size - 4)).min(16);
    truncated(bytes, offset + size, 8 * count as usize)
}

/// The failure of the optional header at an offset, unless the COFF header before it says that it has no bytes.
fn optional_failure(bytes: &[u8], offset: usize) -> Option<Failure>
    requires small { offset < 2 ^ 33 }
    requires after { 4 ≤ offset }
    requires there { offset ≤ length bytes.now }
    ensures { result ≡ optional_failure bytes.now offset }
{
    if read_u16(bytes, offset - 4) == 0 {
        None
    } else {
        fields_failure(bytes, offset)
    }
}

#[tactic(auto, unfolding(crate::specs::Failures::header_failure))]
pub fn image_failure(bytes: &[u8], mode: u32) -> Option<Failure>
    ensures { result ≡ image_failure bytes.now mode }
{
    if let Some(failure) = dos_failure(bytes, mode) {
        return Some(failure);
    }
    let pointer = read_u32(bytes, 60) as usize;
    if let Some(failure) = pe_failure(bytes, pointer) {
        return Some(failure);
    }
    optional_failure(bytes, pointer + 24)
}

/// Writes a failure to `out` and returns `DONE`, or returns `NOTHING` without one.
pub fn hand_out_failure(found: Option<Failure>, out: &mut Failure) -> u32
    ensures { HandsOutIf result out.old out.new (Ok found) }
{
    match found {
        Some(failure) => {
            *out = failure;
            DONE
        }
        None => NOTHING,
    }
}

/// The failure of so many section headers at an offset.
pub fn rows_failure(bytes: &[u8], offset: usize, count: usize) -> Option<Failure>
    requires { count < 2 ^ 16 }
    ensures { result ≡ first_failure (rows_failures bytes.now offset count) }
{
    if count == 0 {
        return None;
    }
    truncated(bytes, offset, 40 * count)
}

#[tactic(auto, unfolding(crate::specs::Failures::te_failures))]
pub fn te_failure(bytes: &[u8]) -> Option<Failure>
    ensures { result ≡ first_failure (te_failures bytes.now) }
{
    if let Some(failure) = truncated(bytes, 0, usize::from(SIZE_OF_TE_HEADER)) {
        return Some(failure);
    }
    let signature = read_u16(bytes, 0);
    if signature != TE_MAGIC {
        return Some(failure_at(BAD_MAGIC, 0, 2, u32::from(signature)));
    }
    let stripped = read_u16(bytes, 6);
    if stripped < SIZE_OF_TE_HEADER {
        return Some(failure_at(TE_SIZE, 6, 2, u32::from(stripped)));
    }
    None
}
