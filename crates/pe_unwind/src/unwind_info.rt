//! x64 unwind records (`UNWIND_INFO`): a header of 4 bytes, the unwind codes, and by the flags a chained function or a
//! handler. A caller undoes the codes of the record, then those of the function to which it is chained. See
//! [x64 exception handling](https://learn.microsoft.com/cpp/build/exception-handling-x64).

ghost use Rattle.std.specs.Prelude.{◌≡◌, ◌+◌, ◌*◌, ◌%◌, ◌<◌, ◌≤◌, ◌^◌, ◌==◌, ◌||◌, [], ◌∷◌, length, true, if◌then◌else◌};
ghost use Rattle.std.specs.Option.{option_map};
ghost use Rattle.pe_core.specs.Refusals.{Returns, ReturnsAs, Short, UnwindVersion, outcome};
ghost use Rattle.pe_unwind.specs.CodeStream.{stream_of};
ghost use Rattle.pe_unwind.specs.ScopeTable.{scopes_left};
ghost use Rattle.pe_unwind.specs.UnwindRecord.{handler_view, ending_view, unwind_view, ending_holds, ending_at, is_chained, handles_exceptions, handles_termination, flags_at, count_at, after_codes, unwind_tests, unwind_record, code_stream, scope_table_size, scope_table_at, scope_table_of};

use crate::function_table::{RuntimeFunction, SIZE_OF_FUNCTION};
use crate::register::Register;
use crate::scope_table::{SIZE_OF_SCOPE, ScopeTableIterator};
use crate::unwind_code::{UnwindCode, UnwindCodeIterator};
use pe_core::{
    Error, Reason, Result, TableEntry, read_u8, read_u32, require_bytes, slice_at, u8_at, u32_at,
};

/// The handler of a function, called when an exception passes through it: its RVA, and the handler's data, which are
/// all bytes after that RVA in the record, up to the end of the file.
#[derive(Clone, Copy, Debug, PartialEq)]
pub enum UnwindHandler<'a> {
    /// Called to find out who handles the exception (`UNW_FLAG_EHANDLER`).
    ExceptionHandler(u32, &'a [u8]),
    /// Called when the frame is unwound (`UNW_FLAG_UHANDLER`).
    TerminationHandler(u32, &'a [u8]),
}

/// An unwind record: how the frame of a function, or of a part of one, is unwound.
#[derive(Clone, Debug, Drop)]
pub struct UnwindInfo<'a> {
    /// The version of the record, 1 or 2.
    pub version: u8,
    /// The size of the prolog in bytes.
    pub size_of_prolog: u8,
    /// The frame register; register 0 means that there is none.
    pub frame_register: Register,
    /// How far above the stack pointer the frame register was set, in bytes: 16 * the frame offset in the file.
    /// Subtract it from the frame register to get the address from which `FP` offsets count.
    pub frame_register_offset: u32,
    /// The function to which the record is chained (`UNW_FLAG_CHAININFO`): its record continues this one.
    pub chained_info: Option<RuntimeFunction>,
    /// The handler, if there is one. A chained record has none; if both flags are set, it is the exception handler.
    pub handler: Option<UnwindHandler<'a>>,
    code_bytes: &'a [u8],
}

/// Tests what follows the codes of a record with these flags: a chained function, a handler's RVA or nothing. Error:
/// `Short`.
#[tactic(auto, unfolding(crate::specs::UnwindRecord::ending_holds))]
fn require_ending(bytes: &[u8], offset: usize, flags: u8) -> Result<()>
    ensures { Returns result
        (outcome ((ending_holds bytes.now offset flags, Short) ∷ []) tt) }
{
    if flags / 4 % 2 == 1 {
        return require_bytes(bytes, offset, SIZE_OF_FUNCTION);
    }
    if flags % 2 == 0 && flags / 2 % 2 == 0 {
        return Ok(());
    }
    require_bytes(bytes, offset, 4)
}

/// What follows the codes of a record with these flags: a chained function, a handler or nothing. Inlined, as is all
/// that makes a record, so that a caller who takes some of its fields makes no others.
#[inline(always)]
#[tactic(auto, unfolding(crate::specs::UnwindRecord::ending_holds, crate::specs::UnwindRecord::ending_at))]
fn ending(
    bytes: &[u8],
    offset: usize,
    flags: u8,
) -> (Option<RuntimeFunction>, Option<UnwindHandler<'_>>)
    requires { ending_holds bytes.now offset flags ≡ true }
    ensures { ending_view result ≡ ending_at bytes.now offset flags }
{
    if flags / 4 % 2 == 1 {
        return (Some(RuntimeFunction::at(bytes, offset)), None);
    }
    if flags % 2 == 0 && flags / 2 % 2 == 0 {
        return (None, None);
    }
    let address = read_u32(bytes, offset);
    let data = bytes.split_at(offset + 4).1;
    let handler = if flags % 2 == 1 {
        UnwindHandler::ExceptionHandler(address, data)
    } else {
        UnwindHandler::TerminationHandler(address, data)
    };
    (None, Some(handler))
}

/// Tests the version, in the lowest bits of a record's first byte. Error: `UnwindVersion`.
fn require_version(first: u8) -> Result<()>
    ensures { Returns result
        (outcome ((first % 8 == 1 || first % 8 == 2, UnwindVersion) ∷ []) tt) }
{
    let version = first % 8;
    if version == 1 || version == 2 {
        Ok(())
    } else {
        Err(Error::Malformed(Reason::UnwindVersion(version)))
    }
}

/// The number of slots of a record, after all tests of the record, one after the other. Out of line, as few records need
/// more than the tests of `tested_slots`.
#[cold]
#[inline(never)]
#[tactic(auto, unfolding(crate::specs::UnwindRecord::unwind_tests))]
fn slots_by_all_tests(bytes: &[u8], offset: usize) -> Result<usize>
    ensures { Returns result
        (outcome (unwind_tests bytes.now offset) (count_at bytes.now offset)) }
{
    let first = u8_at(bytes, offset)?;
    require_version(first)?;
    require_bytes(bytes, offset, 4)?;
    let count = usize::from(read_u8(bytes, offset + 2));
    require_bytes(bytes, offset + 4, 2 * count)?;
    require_ending(bytes, after_slots(offset, count), first / 8)?;
    Ok(count)
}

/// The size in bytes of what follows the codes of a record with these flags.
fn ending_size(flags: u8) -> usize
    ensures { result ≡ (if is_chained flags then 12
        else (if handles_exceptions flags || handles_termination flags then 4 else 0)) }
{
    if flags / 4 % 2 == 1 {
        SIZE_OF_FUNCTION
    } else if flags % 2 == 1 || flags / 2 % 2 == 1 {
        4
    } else {
        0
    }
}

/// The number of slots of a record, after all tests of the record: those of `UnwindInfo::parse`.
#[inline(always)]
#[tactic(auto, unfolding(crate::specs::UnwindRecord::unwind_tests, crate::specs::UnwindRecord::ending_holds))]
fn tested_slots(bytes: &[u8], offset: usize) -> Result<usize>
    ensures { Returns result
        (outcome (unwind_tests bytes.now offset) (count_at bytes.now offset)) }
{
    if bytes.len() < 4 || bytes.len() - 4 < offset {
        return slots_by_all_tests(bytes, offset);
    }
    // Where the end of the record is inside the bytes, so are all parts of it.
    let first = read_u8(bytes, offset);
    let count = usize::from(read_u8(bytes, offset + 2));
    if bytes.len() < after_slots(offset, count) + ending_size(first / 8) {
        return slots_by_all_tests(bytes, offset);
    }
    require_version(first)?;
    Ok(count)
}

/// The offset after the codes of a record. They are padded to an even number of slots.
fn after_slots(offset: usize, count: usize) -> usize
    requires { offset + 4 + 2 * (count + 1) < 2 ^ 64 }
    ensures { result ≡ offset + 4 + 2 * (count + count % 2) }
{
    offset + 4 + 2 * (count + count % 2)
}

/// The size in bytes of the entries of the scope table at the start of a handler's data, after its count of 4 bytes.
/// `None` if the count or the entries are truncated.
pub fn scope_table_size(handler_data: &[u8]) -> Option<usize>
    ensures { result ≡ scope_table_size handler_data.now }
{
    let count = u32_at(handler_data, 0).ok()?;
    let size = SIZE_OF_SCOPE * count as usize;
    require_bytes(handler_data, 4, size).ok()?;
    Some(size)
}

/// The scope table at the start of a handler's data: a count, and that many entries. `None` if it is truncated.
#[tactic(auto, unfolding(crate::specs::UnwindRecord::scope_table_at))]
fn scope_table(handler_data: &[u8]) -> Option<ScopeTableIterator<'_>>
    ensures { option_map scopes_left result ≡ scope_table_at handler_data.now }
{
    let size = scope_table_size(handler_data)?;
    let table = slice_at(handler_data, 4, size).ok()?;
    Some(ScopeTableIterator::new(table))
}

impl<'a> UnwindInfo<'a> {
    /// The record at an offset in the bytes. Its handler's data reach to the end of `bytes`.
    ///
    /// Errors, in this order: `Short` if the first byte is missing; `UnwindVersion` unless the version is 1 or 2;
    /// `Short` if the rest of the header, the codes, or the chained function or the handler's RVA are truncated.
    #[inline(always)]
    #[tactic(auto, unfolding(crate::specs::UnwindRecord::unwind_tests, crate::specs::UnwindRecord::ending_holds))]
    pub fn parse(bytes: &'a [u8], offset: usize) -> Result<UnwindInfo<'a>>
        ensures { ReturnsAs unwind_view result
            (outcome (unwind_tests bytes.entry.now offset) (unwind_record bytes.entry.now offset)) }
    {
        let count = tested_slots(bytes, offset)?;
        Ok(UnwindInfo::at(bytes, offset, count))
    }

    /// The record at an offset in the bytes, with so many slots, where its tests hold.
    #[inline(always)]
    #[tactic(auto, unfolding(crate::specs::UnwindRecord::unwind_record))]
    fn at(bytes: &'a [u8], offset: usize, count: usize) -> UnwindInfo<'a>
        requires slots { count ≡ count_at bytes.now offset }
        requires codes { offset + 4 + 2 * count ≤ length bytes.now }
        requires ending { ending_holds bytes.now (after_codes bytes.now offset)
            (flags_at bytes.now offset) ≡ true }
        ensures { unwind_view result ≡ unwind_record bytes.entry.now offset }
    {
        let first = read_u8(bytes, offset);
        let frame = read_u8(bytes, offset + 3);
        let (chained_info, handler) = ending(bytes, after_slots(offset, count), first / 8);
        UnwindInfo {
            version: first % 8,
            size_of_prolog: read_u8(bytes, offset + 1),
            frame_register: Register(frame % 16),
            frame_register_offset: u32::from(frame / 16) * 16,
            chained_info,
            handler,
            code_bytes: &bytes[offset + 4..offset + 4 + 2 * count],
        }
    }

    /// The codes, the last operation of the prolog first. The codes of `chained_info` come after them.
    pub fn unwind_codes(&self) -> UnwindCodeIterator<'a>
        ensures { stream_of result ≡ code_stream (unwind_view self.now) }
    {
        UnwindCodeIterator::new(self.code_bytes, self.version, self.frame_register)
    }

    /// The bytes of the codes, two for each slot. They start four bytes after the offset at which the record was read.
    pub fn code_bytes(&self) -> &'a [u8]
        ensures { result.now ≡ (unwind_view self.now).codes }
    {
        self.code_bytes
    }

    /// The entries of the scope table that an exception handler for C has as its data: a count of four bytes, and that
    /// many entries. `None` without an exception handler, or if the table is truncated. The record does not say
    /// whether its handler is the one for C.
    pub fn c_scope_table_entries(&self) -> Option<ScopeTableIterator<'a>>
        ensures { option_map scopes_left result ≡ scope_table_of (unwind_view self.now) }
    {
        match self.handler {
            Some(UnwindHandler::ExceptionHandler(_, data)) => scope_table(data),
            _ => None,
        }
    }
}

impl<'a, 'b> IntoIterator for &'b UnwindInfo<'a> {
    type Item = Result<UnwindCode>;

    type IntoIter = UnwindCodeIterator<'a>;

    ghost into_iter_gives = { λ s it. stream_of it ≡ code_stream (unwind_view s.now) };

    fn into_iter(self) -> UnwindCodeIterator<'a> {
        self.unwind_codes()
    }
}
