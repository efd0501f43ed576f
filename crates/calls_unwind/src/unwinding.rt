//! The functions of x64 images, and how their frames are unwound. The exception directory is a table of functions,
//! sorted by start RVA. Each leads to an unwind record, whose codes say what the prolog did to the stack: undo them to
//! find the caller's frame.
//! https://learn.microsoft.com/cpp/build/exception-handling-x64

ghost use Rattle.std.specs.Int.{is_power_of_two};
ghost use Rattle.std.specs.Prelude.{◌≡◌, ◌+◌, ◌^◌, ◌<◌, ◌≤◌, length, true, IfSome, Some, Ok};
ghost use Rattle.pe_core.specs.Refusals.{answer_of};
ghost use Rattle.pe_core.specs.SectionMap.{offset_of};
ghost use Rattle.pe_unwind.specs.FunctionTable.{Finds, functions};
ghost use Rattle.pe_unwind.specs.Offsets.{UnwindPartsStand};
ghost use Rattle.pe_unwind.specs.ScopeTable.{scope_at};
ghost use Rattle.pe_unwind.specs.UnwindRecord.{unwind_view};
ghost use Rattle.calls_base.specs.HandsOut.{HandsOut};
ghost use Rattle.calls_base.specs.Ranges.{bytes_at, one_if_some};
ghost use Rattle.pe_frame.specs.Undoing.{bytes_above};
ghost use Rattle.calls_unwind.specs.Unwinding.{PutsRecord, codes_after, exception_table_at, function_in, machine_table_at, or_no_function, handler_kind, handler_address, handler_range, flat_record, flat_record_at, FindsOffset, FollowsToRecord, HandsOutRecord, links_at, from_frame, saving, plain, flat, StepsOver, WalksIn, scopes_at};
ghost use Rattle.calls_base.specs.Views.{directory_sections, map_of};
ghost use Rattle.calls_base.specs.Walks.{next_of, walk_of};

pub mod plan;

use crate::arm64::functions;
use calls_base::image::{EXCEPTION_TABLE, directory, is_absent};
use calls_base::ranges::{NO_BYTES, Range, last_range, range_of, slice_of};
use calls_base::results::{DONE, hand_out, options};
use calls_base::view::{View, map_by, sections_of};
use calls_base::walks::next_entry;
use pe_core::{
    COFF_MACHINE_ARM64, COFF_MACHINE_X86_64, CountedTable, Result, RvaMap, SectionTable,
    TableEntry, read_u8, read_u32,
};
use pe_unwind::{
    ExceptionData, Register, RuntimeFunction, ScopeTableEntry, StackFrameOffset, UnwindCode,
    UnwindCodeIterator, UnwindHandler, UnwindInfo, UnwindOperation, linked_record_offset,
    scope_table_size, search,
};

/// The size of an entry of a scope table in bytes.
const SIZE_OF_SCOPE: usize = 16;

/// Raw pointers are rounded down to a multiple of this, and sizes up to one of the next.
const SECTOR: usize = 512;

const PAGE: usize = 4096;

/// A walk over unwind codes, and what else it takes to read them.
#[repr(C)]
#[derive(Clone, Copy)]
pub struct CodeWalk {
    /// The code bytes that are left, 2 for each slot.
    pub left: Range,
    /// The version of the unwind record, 1 or 2.
    pub version: u8,
    /// The number of the frame register; 0 without one.
    pub frame_register: u8,
    /// 0.
    pub spare: [u8; 6],
}

/// An unwind record (`UNWIND_INFO`).
#[repr(C)]
#[derive(Clone, Copy)]
pub struct UnwindRecord {
    /// A walk for `pe_c_next_code`, at its start.
    pub codes: CodeWalk,
    /// What follows the handler's RVA, up to the end of the file. Empty without a handler.
    pub handler_data: Range,
    /// RVA of the handler, or 0.
    pub handler: u32,
    /// The function to which the record is chained: its record continues this one. All 0 where `is_chained` is 0.
    pub chained: RuntimeFunction,
    /// 1 where the record is chained, else 0.
    pub is_chained: u32,
    /// How far above the stack pointer the frame register was set, in bytes: subtract it from the frame register to get
    /// the base of saves.
    pub frame_register_offset: u32,
    /// The length of the prolog in bytes.
    pub size_of_prolog: u8,
    /// 0 without a handler, 1 for an exception handler, also where it has both flags, 2 for a termination handler.
    pub handler_kind: u8,
    /// 0.
    pub spare: [u8; 6],
}

/// An unwind code (`UNWIND_CODE`).
#[repr(C)]
#[derive(Clone, Copy)]
pub struct Code {
    /// Bytes, from the start of the prolog to the end of the instruction.
    pub code_offset: u8,
    /// What the instruction did:
    /// - 0 `UWOP_PUSH_NONVOL`: pushed the register `operand`;
    /// - 1 `UWOP_ALLOC_SMALL`, `UWOP_ALLOC_LARGE`: allocated `value` bytes on the stack;
    /// - 2 `UWOP_SET_FPREG`: set the frame register;
    /// - 3 `UWOP_SAVE_NONVOL`, `UWOP_SAVE_NONVOL_FAR`: saved an integer register;
    /// - 4 opcode 6 of version 1: saved the low half of an XMM register;
    /// - 5 `UWOP_EPILOG` of version 2: where an epilog is;
    /// - 6 `UWOP_SAVE_XMM128`, `UWOP_SAVE_XMM128_FAR`, opcode 7 of version 1: saved an XMM register;
    /// - 7 `UWOP_PUSH_MACHFRAME`: the processor pushed a machine frame;
    /// - 8 opcode 7 of version 2: nothing.
    pub operation: u8,
    /// The register that is pushed or saved; for an epilog its flags or the high part of its offset; for a machine
    /// frame 1 if it has an error code; else 0.
    pub operand: u8,
    /// 1 where `value` counts from the frame register, else 0.
    pub from_frame: u8,
    /// Bytes that are allocated, or the offset of what is saved in bytes; for an epilog its size or the low part of its
    /// offset; else 0.
    pub value: u32,
}

/// The range of the function table, if the image is for x64 and has one.
#[tactic(auto, unfolding(crate::specs::Unwinding::exception_table_at))]
pub fn table_of(view: &View) -> Result<Option<Range>>
    ensures { answer_of result
        ≡ exception_table_at COFF_MACHINE_X86_64 12 view.now.bytes.now view.now.image.now
        (directory_sections view.now 3) view.now.image.now.mode }
{
    let directory = directory(view.image, EXCEPTION_TABLE);
    if view.image.machine != COFF_MACHINE_X86_64 || is_absent(directory) {
        return Ok(None);
    }
    let alignment = view.image.file_alignment;
    let exceptions = ExceptionData::parse_with_opts(
        view.bytes,
        directory,
        sections_of(view, directory.virtual_address),
        alignment,
        &options(view.image.mode),
    )?;
    Ok(Some(range_of(exceptions.table_range())))
}

/// The range of the function table of an image for a machine.
pub fn machine_table(view: &View, machine: u32) -> Result<Option<Range>>
    ensures { answer_of result ≡ machine_table_at machine view.now.bytes.now view.now.image.now
        (directory_sections view.now 3) view.now.image.now.mode }
{
    if machine == u32::from(COFF_MACHINE_X86_64) {
        return table_of(view);
    }
    if machine == u32::from(COFF_MACHINE_ARM64) {
        return functions::table_of(view);
    }
    Ok(None)
}

/// The function that covers an RVA, in the bytes of a table.
#[inline(always)]
pub fn find(entries: &[u8], rva: u32) -> Option<RuntimeFunction>
    ensures { Finds (functions entries.now) rva result }
{
    let mut counted = CountedTable::new(entries);
    search(&mut counted, rva)
}

/// The function of a table with an index.
pub fn function_in(bytes: &[u8], table: &Range, index: u64) -> Result<RuntimeFunction>
    ensures { answer_of result ≡ function_in bytes.now table.now index }
{
    let entries = slice_of(bytes, table)?;
    RuntimeFunction::of_table(entries, index as usize)
}

/// The field `chained` of a record that is not chained.
const NO_FUNCTION: RuntimeFunction = RuntimeFunction {
    begin_address: 0,
    end_address: 0,
    unwind_info_address: 0,
};

/// Whether a record is chained, and the function to which it is.
fn chained_of(info: &UnwindInfo) -> (u32, RuntimeFunction)
    ensures some { result.0 ≡ one_if_some (unwind_view info.now).chained_info }
    ensures function { result.1 ≡ or_no_function (unwind_view info.now).chained_info }
{
    match info.chained_info {
        Some(function) => (1, function),
        None => (0, NO_FUNCTION),
    }
}

/// The kind, RVA and data of a record's handler.
fn handler_of(info: &UnwindInfo, bytes: &[u8], offset: usize) -> (u8, u32, Range)
    requires { UnwindPartsStand bytes.now offset (unwind_view info.now) }
    ensures kind { result.0 ≡ handler_kind (unwind_view info.now).handler }
    ensures address { result.1 ≡ handler_address (unwind_view info.now).handler }
    ensures range { result.2 ≡ handler_range bytes.now (unwind_view info.now).handler }
{
    let total = bytes.len();
    match info.handler {
        None => (0, 0, NO_BYTES),
        Some(UnwindHandler::ExceptionHandler(address, data)) => {
            (1, address, last_range(total, data.len()))
        }
        Some(UnwindHandler::TerminationHandler(address, data)) => {
            (2, address, last_range(total, data.len()))
        }
    }
}

/// A walk over the codes of a record, which follow its header.
#[inline(always)]
fn codes_after(offset: usize, size: usize, version: u8, frame_register: u8) -> CodeWalk
    requires { offset + 4 < 2 ^ 64 }
    ensures { result ≡ codes_after offset size version frame_register }
{
    CodeWalk {
        left: Range {
            offset: offset as u64 + 4,
            length: size as u64,
        },
        version,
        frame_register,
        spare: [0; 6],
    }
}

/// The record at a file offset, as numbers and ranges.
#[inline(always)]
fn flat_record(info: &UnwindInfo, bytes: &[u8], offset: usize) -> UnwindRecord
    requires { UnwindPartsStand bytes.now offset (unwind_view info.now) }
    ensures { result ≡ flat_record bytes.now offset (unwind_view info.now) }
{
    let (is_chained, chained) = chained_of(info);
    let (handler_kind, handler, handler_data) = handler_of(info, bytes, offset);
    let size = info.code_bytes().len();
    UnwindRecord {
        codes: codes_after(offset, size, info.version, info.frame_register.0),
        handler_data,
        handler,
        chained,
        is_chained,
        frame_register_offset: info.frame_register_offset,
        size_of_prolog: info.size_of_prolog,
        handler_kind,
        spare: [0; 6],
    }
}

/// The unwind record at a file offset. Inlined, so that its fields go straight to the caller's record.
#[inline(always)]
fn record_at(bytes: &[u8], offset: usize) -> Result<UnwindRecord>
    ensures { answer_of result ≡ flat_record_at bytes.now offset }
{
    let info = UnwindInfo::parse(bytes, offset)?;
    Ok(flat_record(&info, bytes, offset))
}

/// The file offset of the record of an unwind RVA, by the links of the function table at a range. It is not inlined, since
/// compilers write no links.
#[cold]
#[inline(never)]
pub fn linked_offset<M: RvaMap>(bytes: &[u8], table: &Range, map: &M, unwind: u32) -> Result<usize>
    ensures { FindsOffset (links_at (M.offset map.now) bytes.now table.now) unwind (answer_of result) }
{
    let entries = slice_of(bytes, table)?;
    linked_record_offset(entries, table.offset as usize, map, unwind)
}

/// The same, where an even RVA, which is no link, needs none of the table.
#[inline(always)]
#[tactic(auto, using(crate::proofs::EvenRecords::even_offsets))]
fn find_record_offset<M: RvaMap>(bytes: &[u8], table: &Range, map: &M, unwind: u32) -> Result<usize>
    ensures { FindsOffset (links_at (M.offset map.now) bytes.now table.now) unwind (answer_of result) }
{
    if unwind % 2 == 1 {
        return linked_offset(bytes, table, map, unwind);
    }
    let _entries = slice_of(bytes, table)?;
    map.file_offset(unwind)
}

/// The unwind record of an unwind RVA, as `pe_c_unwind_record` returns it where the map is the image's.
#[inline(always)]
pub fn read_record<M: RvaMap>(
    bytes: &[u8],
    table: &Range,
    map: &M,
    unwind: u32,
) -> Result<UnwindRecord>
    ensures { FollowsToRecord bytes.now (links_at (M.offset map.now) bytes.now table.now) unwind
        (answer_of result) }
{
    let offset = find_record_offset(bytes, table, map, unwind)?;
    record_at(bytes, offset)
}

/// The file offset of an RVA by the first section, where that covers it, by the tests of `find_offset`. That is out of line; a caller
/// who knows the section of its records passes it alone.
#[tactic(auto, using(crate::proofs::EvenRecords::below_some, crate::proofs::EvenRecords::first_offset))]
#[inline(always)]
fn offset_by_first(sections: &[SectionTable], alignment: u32, rva: usize) -> Option<usize>
    requires { is_power_of_two alignment ≡ true }
    ensures { IfSome result (λ p. offset_of true alignment sections.now rva ≡ Some p) }
{
    let section = sections.first()?;
    let start = section.virtual_address as usize;
    if rva < start {
        return None;
    }
    let within = rva - start;
    let page = within / PAGE * PAGE;
    let virtual_size = section.virtual_size as usize;
    if section.size_of_raw_data as usize <= page || virtual_size != 0 && virtual_size <= page {
        return None;
    }
    let raw = section.pointer_to_raw_data as usize;
    let offset = within + raw / SECTOR * SECTOR;
    if raw + section.size_of_raw_data as usize <= offset / alignment as usize * alignment as usize {
        return None;
    }
    Some(offset)
}

/// The file offset of the record of an even unwind RVA, where there is one section and no index, and the section covers it.
#[inline(always)]
#[tactic(auto, using(crate::proofs::EvenRecords::near_offset, crate::proofs::EvenRecords::by_sections))]
pub fn near_offset(view: &View, table: &Range, unwind: u32) -> Option<usize>
    ensures { IfSome result (λ p. FindsOffset (links_at (map_of view.now) view.now.bytes.now table.now) unwind
        (Ok p)) }
{
    let image = view.image;
    if unwind % 2 == 1
        || view.sections.len() != 1
        || !view.index.is_empty()
        || image.mode / 2 % 2 == 1
    {
        return None;
    }
    let _entries = slice_of(view.bytes, table).ok()?;
    let alignment = image.file_alignment;
    if !alignment.is_power_of_two() {
        return None;
    }
    offset_by_first(view.sections, alignment, unwind as usize)
}

/// Writes the record at a file offset to `out`, where it is one of codes alone and passes all tests; else `out` is unchanged.
#[inline(always)]
#[tactic(auto, unfolding(pe_unwind::specs::UnwindRecord::unwind_tests, pe_unwind::specs::UnwindRecord::unwind_record, pe_unwind::specs::UnwindRecord::ending_at, pe_unwind::specs::UnwindRecord::ending_holds))]
pub fn put_plain(bytes: &[u8], offset: usize, out: &mut UnwindRecord) -> bool
    ensures { PutsRecord bytes.now offset result out.old out.new }
{
    if bytes.len() < 4 || bytes.len() - 4 < offset {
        return false;
    }
    let version = read_u8(bytes, offset);
    let size = 2 * usize::from(read_u8(bytes, offset + 2));
    if version != 1 && version != 2 || bytes.len() - 4 - offset < size {
        return false;
    }
    let frame = read_u8(bytes, offset + 3);
    *out = UnwindRecord {
        codes: codes_after(offset, size, version, frame % 16),
        handler_data: NO_BYTES,
        handler: 0,
        chained: NO_FUNCTION,
        is_chained: 0,
        frame_register_offset: u32::from(frame / 16) * 16,
        size_of_prolog: read_u8(bytes, offset + 1),
        handler_kind: 0,
        spare: [0; 6],
    };
    true
}

/// The same of a record that has a handler.
#[inline(always)]
#[tactic(auto, unfolding(pe_unwind::specs::UnwindRecord::unwind_tests, pe_unwind::specs::UnwindRecord::unwind_record, pe_unwind::specs::UnwindRecord::ending_at, pe_unwind::specs::UnwindRecord::ending_holds))]
fn put_handled(bytes: &[u8], offset: usize, out: &mut UnwindRecord) -> bool
    ensures { PutsRecord bytes.now offset result out.old out.new }
{
    if bytes.len() < 4 || bytes.len() - 4 < offset {
        return false;
    }
    let first = read_u8(bytes, offset);
    let count = usize::from(read_u8(bytes, offset + 2));
    let data = 8 + 2 * (count + count % 2);
    if first < 8 || first >= 32 || first % 8 != 1 && first % 8 != 2 || bytes.len() - offset < data {
        return false;
    }
    let frame = read_u8(bytes, offset + 3);
    *out = UnwindRecord {
        codes: codes_after(offset, 2 * count, first % 8, frame % 16),
        handler_data: last_range(bytes.len(), bytes.len() - offset - data),
        handler: read_u32(bytes, offset + data - 4),
        chained: NO_FUNCTION,
        is_chained: 0,
        frame_register_offset: u32::from(frame / 16) * 16,
        size_of_prolog: read_u8(bytes, offset + 1),
        handler_kind: if first / 8 % 2 == 1 { 1 } else { 2 },
        spare: [0; 6],
    };
    true
}

/// Any other record at a file offset.
#[inline(never)]
fn hand_out_at(bytes: &[u8], offset: usize, out: &mut UnwindRecord) -> u32
    ensures { HandsOut result out.old out.new (flat_record_at bytes.now offset) }
{
    hand_out(record_at(bytes, offset), out)
}

/// A record at a file offset. Out of line, as each of these is: a record of codes alone needs no room for what the others take.
#[inline(never)]
pub fn hand_out_handled(bytes: &[u8], offset: usize, out: &mut UnwindRecord) -> u32
    ensures { HandsOut result out.old out.new (flat_record_at bytes.now offset) }
{
    if put_handled(bytes, offset, out) {
        DONE
    } else {
        hand_out_at(bytes, offset, out)
    }
}

/// The file offset of the record of an even unwind RVA, where a section maps it.
#[inline(always)]
#[tactic(auto, using(crate::proofs::EvenRecords::near_offset))]
fn even_offset(view: &View, table: &Range, unwind: u32) -> Option<usize>
    ensures { IfSome result (λ p. FindsOffset (links_at (map_of view.now) view.now.bytes.now table.now) unwind
        (Ok p)) }
{
    if unwind % 2 == 1 {
        return None;
    }
    let _entries = slice_of(view.bytes, table).ok()?;
    map_by(view, unwind)
}

/// Any other record of an unwind RVA.
#[inline(never)]
fn hand_out_linked(view: &View, table: &Range, unwind: u32, out: &mut UnwindRecord) -> u32
    ensures { HandsOutRecord view.now.bytes.now (links_at (map_of view.now) view.now.bytes.now table.now) unwind
        result out.old out.new }
{
    hand_out(read_record(view.bytes, table, view, unwind), out)
}

/// A record of an unwind RVA, by all sections or by the index.
#[inline(never)]
#[tactic(auto, using(crate::proofs::EvenRecords::near_done, crate::proofs::EvenRecords::near_any))]
pub fn hand_out_far(view: &View, table: &Range, unwind: u32, out: &mut UnwindRecord) -> u32
    ensures { HandsOutRecord view.now.bytes.now (links_at (map_of view.now) view.now.bytes.now table.now) unwind
        result out.old out.new }
{
    match even_offset(view, table, unwind) {
        Some(offset) => {
            if put_plain(view.bytes, offset, out) {
                DONE
            } else {
                hand_out_handled(view.bytes, offset, out)
            }
        }
        None => hand_out_linked(view, table, unwind, out),
    }
}

/// Whether an offset counts from the frame register, and the offset in bytes.
fn from_offset(offset: StackFrameOffset) -> (u8, u32)
    ensures { result ≡ (from_frame offset, bytes_above offset) }
{
    match offset {
        StackFrameOffset::RSP(value) => (0, value),
        StackFrameOffset::FP(value) => (1, value),
    }
}

/// A code that saves a register.
fn saving(code_offset: u8, operation: u8, register: Register, offset: StackFrameOffset) -> Code
    ensures { result ≡ saving code_offset operation register offset }
{
    let (from_frame, value) = from_offset(offset);
    Code {
        code_offset,
        operation,
        operand: register.0,
        from_frame,
        value,
    }
}

/// A code of another operation.
pub fn plain(code_offset: u8, operation: u8, operand: u8, value: u32) -> Code
    ensures { result ≡ plain code_offset operation operand value }
{
    Code {
        code_offset,
        operation,
        operand,
        from_frame: 0,
        value,
    }
}

/// A code as callers get it.
pub fn flat(code: UnwindCode) -> Code
    ensures { result ≡ flat code }
{
    let code_offset = code.code_offset;
    match code.operation {
        UnwindOperation::PushNonVolatile(register) => plain(code_offset, 0, register.0, 0),
        UnwindOperation::Alloc(size) => plain(code_offset, 1, 0, size),
        UnwindOperation::SetFPRegister => plain(code_offset, 2, 0, 0),
        UnwindOperation::SaveNonVolatile(register, offset) => saving(
            code_offset,
            3,
            register,
            offset,
        ),
        UnwindOperation::SaveXMM(register, offset) => saving(code_offset, 4, register, offset),
        UnwindOperation::Epilog {
            offset_low_or_size,
            offset_high_or_flags,
        } => plain(
            code_offset,
            5,
            offset_high_or_flags,
            u32::from(offset_low_or_size),
        ),
        UnwindOperation::SaveXMM128(register, offset) => saving(code_offset, 6, register, offset),
        UnwindOperation::PushMachineFrame(has_code) => plain(code_offset, 7, u8::from(has_code), 0),
        UnwindOperation::Noop => plain(code_offset, 8, 0, 0),
    }
}

/// One step over the bytes that a walk has left.
fn step(left: &[u8], walk: &mut CodeWalk) -> Option<Result<UnwindCode>>
    requires length { length left.now ≡ walk.old.left.length }
    requires end { walk.old.left.offset + walk.old.left.length ≤ 2 ^ 63 }
    ensures { StepsOver left.now walk.old result walk.new }
{
    let mut codes = UnwindCodeIterator::new(left, walk.version, Register(walk.frame_register));
    let code = codes.next();
    let after = codes.bytes_left() as u64;
    walk.left = Range {
        offset: walk.left.offset + (walk.left.length - after),
        length: after,
    };
    code
}

/// The next code of a walk, if there is one. After an error the walk is over.
pub fn next_code(bytes: &[u8], walk: &mut CodeWalk) -> Option<Result<UnwindCode>>
    ensures { WalksIn (bytes_at bytes.now walk.old.left) walk.old result walk.new }
{
    match slice_of(bytes, &walk.left) {
        Ok(left) => step(left, walk),
        Err(error) => {
            walk.left = NO_BYTES;
            Some(Err(error))
        }
    }
}

pub fn scopes_in(bytes: &[u8], handler_data: &Range) -> Result<Option<Range>>
    ensures { answer_of result ≡ scopes_at bytes.now handler_data.now }
{
    let data = slice_of(bytes, handler_data)?;
    match scope_table_size(data) {
        Some(size) => Ok(Some(Range {
            offset: handler_data.offset + 4,
            length: size as u64,
        })),
        None => Ok(None),
    }
}

pub fn next_scope(bytes: &[u8], walk: &mut Range) -> Result<Option<ScopeTableEntry>>
    ensures scope { answer_of result ≡ next_of scope_at 16 bytes.now walk.old }
    ensures walk { walk.new ≡ walk_of 16 bytes.now walk.old }
{
    match next_entry(bytes, walk, SIZE_OF_SCOPE)? {
        Some(entry) => Ok(Some(ScopeTableEntry::at(entry, 0))),
        None => Ok(None),
    }
}
