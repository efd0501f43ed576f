//! The exception that a dump was written for, stream 6: `MINIDUMP_EXCEPTION_STREAM` of 168 bytes, with the thread that
//! raised it, the `MINIDUMP_EXCEPTION` and where the context stands. This context is that of the crash: a caller takes it
//! before that of the thread. Some writers leave the record empty where they are asked for a dump and nothing crashed.
//!
//! <https://learn.microsoft.com/windows/win32/api/minidumpapiset/ns-minidumpapiset-minidump_exception_stream>

ghost use Rattle.std.specs.Prelude.{◌≡◌, ◌+◌, ◌*◌, ◌≤◌, length};
ghost use Rattle.pe_core.specs.Bytes.{le};
ghost use Rattle.pe_core.specs.Rows.{each};
ghost use Rattle.pe_minidump.specs.Dumps.{dump_view};
ghost use Rattle.pe_minidump.specs.Records.{exception_stream};
ghost use Rattle.pe_minidump.specs.Refusals.{DumpReturns};
ghost use Rattle.pe_minidump.specs.Streams.{at_start, exception};

use crate::dump::Dump;
use crate::error::Result;
use crate::location::{Location, require_fields};
use crate::stream_type::EXCEPTION_STREAM;
use pe_core::{read_u32, read_u64};

/// The size of the stream in bytes.
const SIZE_OF_EXCEPTION_STREAM: usize = 168;

/// The exception of a dump (`MINIDUMP_EXCEPTION_STREAM`), 168 bytes, with the fields of its `MINIDUMP_EXCEPTION` among its own.
#[repr(C)]
#[derive(Clone, Copy)]
pub struct Exception {
    /// The ID of the thread that raised it.
    pub thread_id: u32,
    /// The code, as `EXCEPTION_ACCESS_VIOLATION`, C0000005h.
    pub exception_code: u32,
    /// `EXCEPTION_NONCONTINUABLE`, 1, or 0.
    pub exception_flags: u32,
    /// How many elements of `exception_information` are valid, as the file says: it may be above 15, which the array has.
    pub number_parameters: u32,
    /// The address, in the process, of another exception that it belongs to; 0 if there is none.
    pub exception_record: u64,
    /// The address of the instruction.
    pub exception_address: u64,
    /// The parameters. An access violation has two: 0 for a read, 1 for a write, 8 for execution, and the address.
    pub exception_information: [u64; 15],
    /// Where the context of the thread stands, as it was when the exception was raised.
    pub thread_context: Location,
}

/// The parameters at an offset in bytes that are known to have them.
#[tactic(auto, unfolding(pe_core::specs::Rows::each))]
fn parameters_at(bytes: &[u8], offset: usize) -> [u64; 15]
    requires { offset + 120 ≤ length bytes.now }
    ensures { result ≡ each (λ i. le bytes.now (offset + 8 * i) 8) 15 }
{
    [
        read_u64(bytes, offset),
        read_u64(bytes, offset + 8),
        read_u64(bytes, offset + 16),
        read_u64(bytes, offset + 24),
        read_u64(bytes, offset + 32),
        read_u64(bytes, offset + 40),
        read_u64(bytes, offset + 48),
        read_u64(bytes, offset + 56),
        read_u64(bytes, offset + 64),
        read_u64(bytes, offset + 72),
        read_u64(bytes, offset + 80),
        read_u64(bytes, offset + 88),
        read_u64(bytes, offset + 96),
        read_u64(bytes, offset + 104),
        read_u64(bytes, offset + 112),
    ]
}

/// The exception at the start of a stream. Error: `Short` if it has fewer than 168 bytes.
#[tactic(auto, unfolding(crate::specs::Records::exception_stream))]
pub fn exception_of(stream: &[u8]) -> Result<Exception>
    ensures { DumpReturns (λ e. e) result (at_start 168 (exception_stream stream.now 0) stream.now) }
{
    require_fields(stream, SIZE_OF_EXCEPTION_STREAM)?;
    Ok(Exception {
        thread_id: read_u32(stream, 0),
        exception_code: read_u32(stream, 8),
        exception_flags: read_u32(stream, 12),
        number_parameters: read_u32(stream, 32),
        exception_record: read_u64(stream, 16),
        exception_address: read_u64(stream, 24),
        exception_information: parameters_at(stream, 40),
        thread_context: Location::at(stream, 160),
    })
}

impl<'a> Dump<'a> {
    /// The exception (`ExceptionStream`); `None` without such a stream. Errors, in order: `Location`; `Short` if the stream
    /// has fewer than 168 bytes.
    pub fn exception(&self) -> Result<Option<Exception>>
        ensures { DumpReturns (λ e. e) result (exception (dump_view self.now)) }
    {
        match self.stream(EXCEPTION_STREAM)? {
            Some(stream) => Ok(Some(exception_of(stream)?)),
            None => Ok(None),
        }
    }
}
