//! Inlined functions of a PDB: those whose code is at an RVA of a procedure, each in the one after it. Their records are in the symbols
//! of a module within that of the procedure, their lines among the lines of the module, and their names in the stream of ids.
//! https://llvm.org/docs/PDB/CodeViewSymbols.html

ghost use Rattle.std.specs.Prelude.{◌≡◌, ◌+◌, ◌<◌, ◌≤◌, ◌^◌, IfOk, drop, length, map, take};
ghost use Rattle.std.specs.Option.{option_map};
ghost use Rattle.pe_pdb.specs.Ids.{types_view};
ghost use Rattle.pe_pdb.specs.Refusals.{PdbReturns};
ghost use Rattle.pe_pdb.specs.Symbols.{symbol_view};
ghost use Rattle.pe_pdb.specs.Walks.{step_view};
ghost use Rattle.calls_pdb.specs.PdbInlined.{bare, function_name, id_name, ids_in, inlined_by, inlinee_in, inlinees_at, line_put, name_found, name_put, scope_range, stack_at, text_range};
ghost use Rattle.calls_pdb.specs.Pdbs.{pdb_answer};

use crate::index::up_to;
use crate::modules::PdbModule;
use crate::pdb::{number_of_pdb, part_of};
use crate::symbols::PdbSymbol;
use calls_base::ranges::{NO_BYTES, Range};
use calls_base::results::{DONE, NOTHING};
use pe_pdb::{
    DEBUG_S_INLINEELINES, FunctionId, InlineFrame, InlineRow, InlineeLine, LF_FUNC_ID, LF_MFUNC_ID,
    LF_STRING_ID, Result, Subsection, SymbolRecord, TypeRecords, inlined_at, string_id,
};

/// How many bytes of a function's record in the stream of ids come before its name.
const NAME: u64 = 12;

/// The same of a text.
const TEXT: u64 = 8;

/// An inlined function whose code is at an RVA, and which line of it that is.
#[repr(C)]
#[derive(Clone, Copy)]
pub struct PdbInlined {
    /// Its name in the stream of ids, without its scope and the final zero.
    pub name: Range,
    /// The namespace that it is in, there too.
    pub scope: Range,
    /// Which function it is, an index of the stream of ids.
    pub id: u32,
    /// Of a member function its class, an index of the stream of types; else 0.
    pub class_type: u32,
    /// Its source file, for `pe_c_pdb_file_name`.
    pub file: u32,
    /// The line: of a function that another one is inlined in, that of the call.
    pub line: u32,
    /// Where the code of that line starts, from the start of the procedure.
    pub code_offset: u32,
    /// How many bytes that is.
    pub code_size: u32,
    /// `DONE`, `NOTHING` without a name, or the number of an error.
    pub name_result: u32,
    /// `DONE`, `NOTHING` without a line, or the number of an error.
    pub line_result: u32,
}

/// Where the name of a function is in the stream of ids.
#[derive(Clone, Copy)]
pub struct FunctionName {
    pub name: Range,
    /// The namespace that it is in.
    pub scope: Range,
    /// Of a member function its class, an index of the stream of types; else 0.
    pub class_type: u32,
}

/// The text in a record, if it is that of a text. `offset` is that of all records in the stream.
fn text_range(offset: u64, record: &SymbolRecord<'_>) -> Range
    requires { offset + record.now.offset + 12 < 2 ^ 64 }
    ensures { result ≡ text_range offset (symbol_view record.now) }
{
    if record.kind != LF_STRING_ID {
        return NO_BYTES;
    }
    match string_id(record.content) {
        Ok(text) => Range {
            offset: offset + record.offset as u64 + TEXT,
            length: text.len() as u64,
        },
        Err(_) => NO_BYTES,
    }
}

/// The namespace with an id. No bytes of an id that is none, or whose record is refused.
fn scope_range(ids: &TypeRecords<'_>, starts: &[u64], scope: u32) -> Range
    requires { ids.now.offset + length ids.now.records.now < 2 ^ 63 }
    ensures { result ≡ scope_range (types_view ids.now) starts.now scope }
{
    match ids.get(starts, scope) {
        Ok(Some(record)) => text_range(ids.offset as u64, &record),
        Ok(None) => NO_BYTES,
        Err(_) => NO_BYTES,
    }
}

/// The name of a function in its record, if it is that of a function.
fn function_name(
    ids: &TypeRecords<'_>,
    starts: &[u64],
    record: &SymbolRecord<'_>,
) -> Result<Option<FunctionName>>
    requires inside { ids.now.offset + length ids.now.records.now < 2 ^ 63 }
    requires record { record.now.offset + 4 ≤ length ids.now.records.now }
    ensures { pdb_answer result ≡ function_name (types_view ids.now) starts.now (symbol_view record.now) }
{
    if record.kind != LF_FUNC_ID && record.kind != LF_MFUNC_ID {
        return Ok(None);
    }
    let function = FunctionId::parse(record.content)?;
    let name = Range {
        offset: ids.offset as u64 + record.offset as u64 + NAME,
        length: function.name.len() as u64,
    };
    if record.kind == LF_MFUNC_ID {
        return Ok(Some(FunctionName {
            name,
            scope: NO_BYTES,
            class_type: function.scope,
        }));
    }
    Ok(Some(FunctionName {
        name,
        scope: scope_range(ids, starts, function.scope),
        class_type: 0,
    }))
}

/// The name of the function with an id.
fn id_name(ids: &TypeRecords<'_>, starts: &[u64], id: u32) -> Result<Option<FunctionName>>
    requires { ids.now.offset + length ids.now.records.now < 2 ^ 63 }
    ensures { pdb_answer result ≡ id_name (types_view ids.now) starts.now id }
{
    match ids.get(starts, id)? {
        Some(record) => function_name(ids, starts, &record),
        None => Ok(None),
    }
}

/// The same of a stream that may be refused.
fn name_found(
    ids: &Result<TypeRecords<'_>>,
    starts: &[u64],
    id: u32,
) -> Result<Option<FunctionName>>
    requires { IfOk ids.now (λ t. t.offset + length t.records.now < 2 ^ 63) }
    ensures { pdb_answer result ≡ name_found (step_view types_view ids.now) starts.now id }
{
    match ids {
        Ok(ids) => id_name(ids, starts, id),
        Err(error) => Err(*error),
    }
}

/// The lines of the inlined functions of a module. `None` without them.
pub fn inlinees_at<'a>(bytes: &'a [u8], lines: &Range) -> Result<Option<&'a [u8]>>
    ensures { PdbReturns (option_map (λ b. b.now)) result (inlinees_at bytes.entry.now lines.now) }
{
    match Subsection::find(part_of(bytes, lines)?, DEBUG_S_INLINEELINES)? {
        Some(subsection) => Ok(Some(subsection.content)),
        None => Ok(None),
    }
}

/// Where the function with an id is in the source, by these.
fn inlinee_in(inlinees: &Result<Option<&[u8]>>, id: u32) -> Result<Option<InlineeLine>>
    ensures { pdb_answer result ≡ inlinee_in (step_view (option_map (λ b. b.now)) inlinees.now) id }
{
    match inlinees {
        Ok(Some(content)) => InlineeLine::find(content, id),
        Ok(None) => Ok(None),
        Err(error) => Err(*error),
    }
}

/// One of which nothing else is known.
fn bare(frame: &InlineFrame) -> PdbInlined
    ensures { result ≡ bare frame.now }
{
    PdbInlined {
        name: NO_BYTES,
        scope: NO_BYTES,
        id: frame.inlinee,
        class_type: 0,
        file: 0,
        line: 0,
        code_offset: frame.row.offset,
        code_size: frame.row.length,
        name_result: NOTHING,
        line_result: NOTHING,
    }
}

/// One with its name.
fn name_put(inlined: PdbInlined, found: &Result<Option<FunctionName>>) -> PdbInlined
    ensures { result ≡ name_put inlined (pdb_answer found.now) }
{
    match found {
        Ok(Some(found)) => PdbInlined {
            name: found.name,
            scope: found.scope,
            class_type: found.class_type,
            name_result: DONE,
            ..inlined
        },
        Ok(None) => inlined,
        Err(error) => PdbInlined {
            name_result: number_of_pdb(error),
            ..inlined
        },
    }
}

/// One with the line of a row.
fn line_put(inlined: PdbInlined, row: &InlineRow, found: &Result<Option<InlineeLine>>) -> PdbInlined
    ensures { result ≡ line_put inlined row.now (pdb_answer found.now) }
{
    match found {
        Ok(Some(inlinee)) => match inlinee.line_of(row) {
            Some(at) => PdbInlined {
                file: at.file,
                line: at.line,
                line_result: DONE,
                ..inlined
            },
            None => inlined,
        },
        Ok(None) => inlined,
        Err(error) => PdbInlined {
            line_result: number_of_pdb(error),
            ..inlined
        },
    }
}

/// An inlined function as callers get it.
fn inlined_by(
    inlinees: &Result<Option<&[u8]>>,
    ids: &Result<TypeRecords<'_>>,
    starts: &[u64],
    frame: &InlineFrame,
) -> PdbInlined
    requires { IfOk ids.now (λ t. t.offset + length t.records.now < 2 ^ 63) }
    ensures { result ≡ inlined_by (step_view (option_map (λ b. b.now)) inlinees.now) (step_view types_view ids.now) starts.now frame.now }
{
    let named = name_put(bare(frame), &name_found(ids, starts, frame.inlinee));
    line_put(named, &frame.row, &inlinee_in(inlinees, frame.inlinee))
}

/// Writes them to the start of a room.
pub fn put_inlined(
    inlinees: &Result<Option<&[u8]>>,
    ids: &Result<TypeRecords<'_>>,
    starts: &[u64],
    frames: &[InlineFrame],
    room: &mut [PdbInlined],
)
    requires ids { IfOk ids.now (λ t. t.offset + length t.records.now < 2 ^ 63) }
    requires room { length frames.now ≤ length room.old }
    ensures put { take (length frames.now) room.new
        ≡ map (inlined_by (step_view (option_map (λ b. b.now)) inlinees.now) (step_view types_view ids.now) starts.now) frames.now }
    ensures rest { drop (length frames.now) room.new ≡ drop (length frames.now) room.old }
{
    for i in 0..frames.len() {
        room[i] = inlined_by(inlinees, ids, starts, &frames[i]);
    }
}

/// Those that have an RVA of a procedure.
pub fn stack_at<'r>(
    bytes: &[u8],
    module: &PdbModule,
    procedure: &PdbSymbol,
    rva: u32,
    room: &'r mut [InlineFrame],
) -> Result<&'r [InlineFrame]>
    requires { length room.old ≡ 64 }
    ensures { PdbReturns (λ f. f.now) result (stack_at bytes.now module.now procedure.now rva) }
{
    let records = up_to(bytes, &module.symbols)?;
    let start = procedure.range.offset as usize;
    inlined_at(records, start, rva.saturating_sub(procedure.rva), room)
}

/// The stream of ids, and how many records it has.
pub fn ids_in(bytes: &[u8]) -> Result<(TypeRecords<'_>, usize)>
    ensures { PdbReturns (λ x. (types_view x.0, x.1)) result (ids_in bytes.now) }
{
    let ids = TypeRecords::parse(bytes)?;
    let count = ids.count()?;
    Ok((ids, count))
}
