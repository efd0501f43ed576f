//! The unwind record of an ARM64 function (`.xdata`), and its epilog scopes.
//! https://learn.microsoft.com/cpp/build/arm64-exception-handling#xdata-records

ghost use Rattle.std.specs.Prelude.{◌≡◌};
ghost use Rattle.pe_core.specs.Refusals.{Returns, answer_of};
ghost use Rattle.pe_unwind.specs.Arm64Record.{info_view, extension_view};
ghost use Rattle.pe_unwind.specs.Offsets.{Arm64PartsStand};
ghost use Rattle.calls_unwind.specs.Arm64.{arm64_exceptions, arm64_handler_range, arm64_handler_address, has_arm64_handler, first_count, flat_info, flat_info_at, arm64_record_of, flat_scope, flat_scope_at};
ghost use Rattle.calls_base.specs.Views.{map_of};
ghost use Rattle.calls_base.specs.Walks.{next_of, walk_of};

use calls_base::image::{EXCEPTION_TABLE, directory};
use calls_base::ranges::{NO_BYTES, Range, last_range};
use calls_base::results::options;
use calls_base::view::{View, sections_of};
use calls_base::walks::next_entry;
use pe_core::{Result, TableEntry};
use pe_unwind::{
    Arm64EpilogScope, Arm64RuntimeFunction, Arm64UnwindExtension, Arm64UnwindHeader,
    Arm64UnwindInfo, ExceptionData,
};

/// The size of an epilog scope in bytes.
const SIZE_OF_SCOPE: usize = 4;

/// An ARM64 unwind record (`.xdata`).
#[repr(C)]
#[derive(Clone, Copy)]
pub struct Arm64Record {
    /// A walk for `pe_c_next_arm64_scope`, at its start.
    pub scopes: Range,
    /// The code bytes, for `pe_c_arm64_codes`.
    pub codes: Range,
    /// What follows the handler's RVA, up to the end of the file. Empty without a handler.
    pub handler_data: Range,
    /// RVA of the handler, or 0.
    pub handler: u32,
    /// 1 where the record has a handler, else 0.
    pub has_handler: u32,
    /// In bytes.
    pub function_length: u32,
    /// 1 where the record has one epilog and no scope for it: its codes start at `epilog_start`. Else 0.
    pub epilog_in_header: u32,
    /// Index of that epilog's first code byte; else 0.
    pub epilog_start: u32,
    /// 0: a record of another version is an error.
    pub version: u32,
}

/// An epilog scope: where an epilog is in the function, and where its codes start.
#[repr(C)]
#[derive(Clone, Copy)]
pub struct Arm64Scope {
    /// Bytes, from the start of the function to the start of the epilog.
    pub start_offset: u32,
    /// Index of the epilog's first code byte, for `pe_c_arm64_codes`.
    pub start_index: u32,
    /// Bits 18 to 21 of the entry, which are reserved.
    pub reserved: u32,
    /// The whole entry.
    pub word: u32,
}

/// The RVA of a record's handler, whether it has one, and its data.
fn handler_of(info: &Arm64UnwindInfo, bytes: &[u8], offset: usize) -> (u32, u32, Range)
    requires { Arm64PartsStand bytes.now offset (info_view info.now) }
    ensures address { result.0 ≡ arm64_handler_address (info_view info.now).handler }
    ensures some { result.1 ≡ has_arm64_handler (info_view info.now).handler }
    ensures range { result.2 ≡ arm64_handler_range bytes.now (info_view info.now).handler }
{
    match &info.exception_handler {
        None => (0, 0, NO_BYTES),
        Some(handler) => (handler.rva, 1, last_range(bytes.len(), handler.bytes.len())),
    }
}

/// The field for the count of epilog scopes, of the extension word if there is one, else of the header. With the epilog
/// in the header it is the index of the epilog's first code.
fn first_count(header: Arm64UnwindHeader, extension: Option<Arm64UnwindExtension>) -> u32
    ensures { result ≡ first_count header.0 (extension_view extension) }
{
    match extension {
        Some(extension) => extension.epilog_count(),
        None => header.epilog_count(),
    }
}

/// The record at a file offset, as numbers and ranges.
fn flat_info(info: &Arm64UnwindInfo, bytes: &[u8], offset: usize) -> Arm64Record
    requires { Arm64PartsStand bytes.now offset (info_view info.now) }
    ensures { result ≡ flat_info bytes.now offset (info_view info.now) }
{
    let header = info.header;
    let (handler, has_handler, handler_data) = handler_of(info, bytes, offset);
    let scopes = if header.has_extension() {
        offset + 8
    } else {
        offset + 4
    };
    let count = info.scope_bytes().len();
    Arm64Record {
        scopes: Range {
            offset: scopes as u64,
            length: count as u64,
        },
        codes: Range {
            offset: (scopes + count) as u64,
            length: info.code_bytes().len() as u64,
        },
        handler_data,
        handler,
        has_handler,
        function_length: header.function_length(),
        epilog_in_header: u32::from(header.epilog_in_header()),
        epilog_start: if header.epilog_in_header() {
            first_count(header, info.extension)
        } else {
            0
        },
        version: header.version(),
    }
}

/// The unwind record at a file offset.
fn info_at(bytes: &[u8], offset: usize) -> Result<Arm64Record>
    ensures { answer_of result ≡ flat_info_at bytes.now offset }
{
    let info = Arm64UnwindInfo::parse(bytes, offset)?;
    Ok(flat_info(&info, bytes, offset))
}

/// The exception data of an image.
#[tactic(auto, unfolding(pe_unwind::specs::ExceptionTable::exception_at))]
fn exceptions_of<'a>(view: &View<'a>) -> Result<ExceptionData<'a>>
    ensures { Returns result
        (arm64_exceptions (map_of view.now) view.now.bytes.now view.now.image.now) }
{
    let table = directory(view.image, EXCEPTION_TABLE);
    ExceptionData::parse_arm64_with_opts(
        view.bytes,
        table,
        sections_of(view, table.virtual_address),
        view.image.file_alignment,
        &options(view.image.mode),
    )
}

/// The unwind record of a function, as `pe_c_arm64_unwind_record` returns it.
pub fn read_record(view: &View, function: Arm64RuntimeFunction) -> Result<Option<Arm64Record>>
    ensures { answer_of result
        ≡ arm64_record_of (map_of view.now) view.now.bytes.now view.now.image.now function }
{
    let _exceptions = exceptions_of(view)?;
    match function.record_offset(view) {
        None => Ok(None),
        Some(offset) => Ok(Some(info_at(view.bytes, offset?)?)),
    }
}

/// An epilog scope as numbers.
fn flat_scope(scope: Arm64EpilogScope) -> Arm64Scope
    ensures { result ≡ flat_scope scope.0 }
{
    Arm64Scope {
        start_offset: scope.start_offset_words(),
        start_index: scope.start_index(),
        reserved: scope.condition(),
        word: scope.0,
    }
}

pub fn next_scope(bytes: &[u8], walk: &mut Range) -> Result<Option<Arm64Scope>>
    ensures scope { answer_of result ≡ next_of flat_scope_at 4 bytes.now walk.old }
    ensures walk { walk.new ≡ walk_of 4 bytes.now walk.old }
{
    match next_entry(bytes, walk, SIZE_OF_SCOPE)? {
        Some(entry) => Ok(Some(flat_scope(Arm64EpilogScope::at(entry, 0)))),
        None => Ok(None),
    }
}
