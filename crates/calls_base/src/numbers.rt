//! What refuses a call as a number, and the numbers of that failure: which bytes are needed and where, or what stands there. The
//! refusal is that of the call, which is made again; its numbers are read here, by the bytes.

ghost use Rattle.std.specs.Prelude.{◌≡◌};
ghost use Rattle.pe_core.specs.Refusals.{answer_of};
ghost use Rattle.pe_directories.specs.DirectoryRefusals.{directory_answer};
ghost use Rattle.pe_resource.specs.Leaves.{tree_answer};
ghost use Rattle.calls_base.specs.FailureNumbers.{directory_refused, failure_with, needed_at, needed_in, no_numbers, number_there, numbers, refused, refused_value, tree_refused};

use crate::ranges::Range;
use crate::results::{number_of, number_of_directory, number_of_tree};
use pe_core::{Result, read_u8, read_u16, read_u32, require_bytes};
use pe_directories::DirectoryError;
use pe_resource::ResourceTreeError;

/// What is wrong with headers, with a directory or with an item of a walk. A number that the error does not have here is 0.
#[repr(C)]
#[derive(Clone, Copy)]
pub struct Failure {
    /// Offset, from the start of the bytes unless the call says otherwise, of what is truncated or refused, or where it ends after the
    /// bytes that hold it.
    pub offset: u64,
    /// How many bytes are needed.
    pub needed: u64,
    /// The number that is refused: a magic number, an RVA, a size.
    pub value: u64,
    /// The number of the error.
    pub result: u32,
    /// 0.
    pub spare: u32,
}

// The results that have numbers, as `results` has them.
pub const SHORT: u32 = 2;

pub const BAD_MAGIC: u32 = 3;

pub const IMPORT_NAME: u32 = 5;

pub const STRING_TABLE: u32 = 6;

pub const CERTIFICATE_REVISION: u32 = 7;

pub const CERTIFICATE_TYPE: u32 = 8;

pub const CERTIFICATE_SIZE: u32 = 9;

pub const CERTIFICATE_TABLE: u32 = 10;

pub const UNMAPPED: u32 = 11;

pub const DEBUG_BOUNDS: u32 = 12;

pub const DEBUG_SIZE: u32 = 13;

pub const DEBUG_DATA: u32 = 14;

pub const POGO_SIZE: u32 = 15;

pub const EXCEPTION_SIZE: u32 = 17;

pub const EXCEPTION_OFFSET: u32 = 18;

pub const EXCEPTION_BOUNDS: u32 = 19;

pub const FUNCTION_LINK: u32 = 21;

pub const FUNCTION_CYCLE: u32 = 22;

pub const UNWIND_VERSION: u32 = 23;

pub const UNWIND_CODE: u32 = 24;

pub const ARM64_VERSION: u32 = 25;

pub const ARM64_STREAM: u32 = 26;

pub const ARM64_CUT: u32 = 27;

pub const RESOURCE_BOUNDS: u32 = 28;

pub const BLOCK_SIZE: u32 = 301;

pub const BLOCK_TRUNCATED: u32 = 302;

pub const NO_ARGUMENT: u32 = 303;

pub const VA_BELOW_BASE: u32 = 304;

pub const CLR_HEADER_SIZE: u32 = 305;

pub const DELAY_IMPORT_NAME: u32 = 307;

pub const BOUND_IMPORT_NAME: u32 = 308;

/// The numbers of a failure.
#[derive(Clone, Copy)]
pub struct ErrorNumbers {
    /// Of what is truncated or refused, or where it ends.
    pub offset: u64,
    /// How many bytes are needed.
    pub needed: u64,
    /// The number that is refused.
    pub value: u64,
}

/// The numbers of a failure.
pub fn numbers(offset: u64, needed: u64, value: u64) -> ErrorNumbers
    ensures { result ≡ numbers offset needed value }
{
    ErrorNumbers {
        offset,
        needed,
        value,
    }
}

/// Those of a failure that has none.
pub fn no_numbers() -> ErrorNumbers
    ensures { result ≡ no_numbers }
{
    numbers(0, 0, 0)
}

/// That so many bytes are needed at an offset.
pub fn needed_at(offset: u64, needed: u64) -> ErrorNumbers
    ensures { result ≡ needed_at offset needed }
{
    numbers(offset, needed, 0)
}

/// The same of an offset that lies in a range. Where that is not inside the bytes, its bytes are needed.
pub fn needed_in(bytes: &[u8], range: &Range, offset: u64, needed: u64) -> ErrorNumbers
    ensures { result ≡ needed_in bytes.now range.now offset needed }
{
    match require_bytes(bytes, range.offset as usize, range.length as usize) {
        Ok(()) => needed_at(offset, needed),
        Err(_) => needed_at(range.offset, range.length),
    }
}

/// That a number is refused.
pub fn refused_value(value: u64) -> ErrorNumbers
    ensures { result ≡ refused_value value }
{
    numbers(0, 0, value)
}

/// The number of one byte at an offset, 0 where it is not there.
pub fn u8_there(bytes: &[u8], offset: usize) -> u8
    ensures { result ≡ number_there bytes.now offset 1 }
{
    match require_bytes(bytes, offset, 1) {
        Ok(()) => read_u8(bytes, offset),
        Err(_) => 0,
    }
}

/// The number of two bytes at an offset, 0 where they are not there.
pub fn u16_there(bytes: &[u8], offset: usize) -> u16
    ensures { result ≡ number_there bytes.now offset 2 }
{
    match require_bytes(bytes, offset, 2) {
        Ok(()) => read_u16(bytes, offset),
        Err(_) => 0,
    }
}

/// The number of four bytes at an offset, 0 where they are not there.
pub fn u32_there(bytes: &[u8], offset: usize) -> u32
    ensures { result ≡ number_there bytes.now offset 4 }
{
    match require_bytes(bytes, offset, 4) {
        Ok(()) => read_u32(bytes, offset),
        Err(_) => 0,
    }
}

/// What refuses a call, if something does.
pub fn refused<T: Copy>(given: Result<T>) -> Option<u32>
    ensures { result ≡ refused (answer_of given) }
{
    match given {
        Ok(_) => None,
        Err(error) => Some(number_of(&error)),
    }
}

/// The same of a directory.
pub fn directory_refused<T: Copy>(given: std::result::Result<T, DirectoryError>) -> Option<u32>
    ensures { result ≡ directory_refused (directory_answer (λ x. x) given) }
{
    match given {
        Ok(_) => None,
        Err(error) => Some(number_of_directory(&error)),
    }
}

/// The same of a resource tree.
pub fn tree_refused<T: Copy>(given: std::result::Result<T, ResourceTreeError>) -> Option<u32>
    ensures { result ≡ tree_refused (tree_answer given) }
{
    match given {
        Ok(_) => None,
        Err(error) => Some(number_of_tree(&error)),
    }
}

/// The failure with the number of its kind and these numbers.
pub fn failure_with(number: u32, numbers: ErrorNumbers) -> Failure
    ensures { result ≡ failure_with number numbers }
{
    Failure {
        offset: numbers.offset,
        needed: numbers.needed,
        value: numbers.value,
        result: number,
        spare: 0,
    }
}
