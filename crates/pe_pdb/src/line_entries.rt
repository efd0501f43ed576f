//! The entries of an index of lines: each row of a module with its RVA, file and column.

ghost use Rattle.std.specs.Prelude.{◌≡◌, ◌+◌, ◌*◌, ◌/◌, ◌<◌, ◌≤◌, ◌^◌, length, slice_set, IfOk};
ghost use Rattle.std.specs.Option.{option_to_list};
ghost use Rattle.pe_pdb.specs.LineEntries.{PutsLines, Writes, WritesDefined, block_lines, code_line, code_view, column_of, lines_of_code, lines_of_subsection, module_lines, rows_in};
ghost use Rattle.pe_pdb.specs.Lines.{block_view, subsection_view};

use crate::error::{PdbError, Result};
use crate::line::{DEBUG_S_LINES, FIRST_BLOCK, LineBlock, LineHeader, Subsection, row_in};
use crate::sections::SectionHeaders;
use pe_core::read_u16;

/// How much an RVA counts in what entries are sorted by.
pub(crate) const UNIT: u64 = 1 << 32;

/// A line of the source, and its code.
#[repr(C)]
#[derive(Clone, Copy, Debug, Default, PartialEq)]
pub struct CodeLine {
    /// Where its code starts.
    pub rva: u32,
    /// How many bytes of code there are from there to the end of the subsection. The line's own code may end before, at the next
    /// row.
    pub code_size: u32,
    /// Its file: an offset in the content of `DEBUG_S_FILECHKSMS`, for `FileChecksum::parse`.
    pub file: u32,
    /// The line, of 24 bits, from 1 on.
    pub line: u32,
    /// The column, from 1 on. 0 where there is none.
    pub column: u32,
}

/// An entry of an index of lines.
#[repr(C)]
#[derive(Clone, Copy, Default)]
pub struct LineEntry {
    pub line: CodeLine,
    /// The index among those of the module, in the order of its rows.
    pub index: u32,
}

/// The code whose lines a subsection has.
#[derive(Clone, Copy)]
pub(crate) struct Code<'a> {
    pub(crate) rva: u32,
    pub(crate) header: LineHeader,
    pub(crate) content: &'a [u8],
}

/// The column of a row of a block of the code. 0 where there is none.
fn column_of(code: &Code<'_>, block: &LineBlock<'_>, index: usize) -> u16
    requires inside { block.now.offset + block.now.size ≤ length code.now.content.now }
    requires listed { index < rows_in (block_view block.now) }
    ensures { result ≡ column_of (code_view code.now) (block_view block.now) index }
{
    let rows = block.rows.len() / 8;
    if code.header.flags % 2 == 0 || (block.size as usize) < 12 + 12 * rows {
        return 0;
    }
    read_u16(code.content, block.offset + 12 + 8 * rows + 4 * index)
}

/// The row with an index in a block of the code. `None` if it is not in the code, or past 2^32.
#[tactic(auto, unfolding(crate::specs::LineEntries::code_line))]
pub(crate) fn code_line(code: &Code<'_>, block: &LineBlock<'_>, index: usize) -> Option<CodeLine>
    requires inside { block.now.offset + block.now.size ≤ length code.now.content.now }
    requires listed { index < rows_in (block_view block.now) }
    ensures { result ≡ code_line (code_view code.now) (block_view block.now) index }
{
    let row = row_in(block.rows, index);
    if row.offset >= code.header.size {
        return None;
    }
    let rva = code.rva.checked_add(row.offset)?;
    Some(CodeLine {
        rva,
        code_size: code.header.size - row.offset,
        file: block.file,
        line: row.line,
        column: u32::from(column_of(code, block, index)),
    })
}

/// Writes an entry, if the room has place for it.
fn set_entry(room: &mut [LineEntry], index: usize, entry: LineEntry)
    ensures { room.new ≡ slice_set room.old index entry }
{
    if index < room.len() {
        room[index] = entry;
    }
}

/// Writes a line, if there is one, after the `count` that there are, if the room has place. Returns how many there are then.
fn put_line(room: &mut [LineEntry], count: usize, line: Option<CodeLine>) -> usize
    requires { count < 2 ^ 32 }
    ensures writes { Writes (option_to_list line) count room.old result room.new }
    ensures few { result ≤ count + 1 }
    ensures len { length room.new ≡ length room.old }
{
    let Some(line) = line else {
        return count;
    };
    let index = count as u32;
    set_entry(room, count, LineEntry { line, index });
    count + 1
}

/// Writes the lines of a block.
fn put_block(code: &Code<'_>, block: &LineBlock<'_>, room: &mut [LineEntry], count: usize) -> usize
    requires inside { block.now.offset + block.now.size ≤ length code.now.content.now }
    requires few { count + rows_in (block_view block.now) ≤ 2 ^ 32 }
    ensures writes { Writes (block_lines (code_view code.now) (block_view block.now) (rows_in (block_view block.now)))
        count room.old result room.new }
    ensures few { result ≤ count + rows_in (block_view block.now) }
    ensures len { length room.new ≡ length room.old }
{
    let mut after = count;
    for index in 0..block.rows.len() / 8 {
        after = put_line(room, after, code_line(code, block, index));
    }
    after
}

/// Writes the lines of a piece of code.
fn put_code(code: &Code<'_>, room: &mut [LineEntry], count: usize) -> Result<usize>
    requires head { 12 ≤ length code.now.content.now }
    requires few { 8 * count + length code.now.content.now < 2 ^ 35 }
    ensures writes { WritesDefined (lines_of_code (code_view code.now)) count room.old result room.new }
    ensures few { IfOk result (λ n. 8 * n ≤ 8 * count + length code.now.content.now) }
    ensures len { length room.new ≡ length room.old }
{
    let mut after = count;
    let mut next = FIRST_BLOCK;
    while next < code.content.len() {
        let block = LineBlock::parse(code.content, next)?;
        after = put_block(code, &block, room, after);
        next = block.end();
    }
    Ok(after)
}

/// Writes the lines of a subsection. One of another kind, or in no section, has none.
#[tactic(auto, unfolding(crate::specs::LineEntries::lines_of_subsection), using(crate::proofs::LineEntries::writes_none))]
fn put_subsection(
    sections: &SectionHeaders<'_>,
    subsection: &Subsection<'_>,
    room: &mut [LineEntry],
    count: usize,
) -> Result<usize>
    requires few { 8 * count + length subsection.now.content.now < 2 ^ 35 }
    ensures writes { WritesDefined (lines_of_subsection sections.now.bytes.now (subsection_view subsection.now))
        count room.old result room.new }
    ensures few { IfOk result (λ n. 8 * n ≤ 8 * count + length subsection.now.content.now) }
    ensures len { length room.new ≡ length room.old }
{
    if subsection.kind != DEBUG_S_LINES {
        return Ok(count);
    }
    let content = subsection.content;
    let header = LineHeader::parse(content)?;
    match sections.rva_of(header.section, header.offset) {
        None => Ok(count),
        Some(rva) => put_code(
            &Code {
                rva,
                header,
                content,
            },
            room,
            count,
        ),
    }
}

/// Writes the lines of a module to a room, as many as it has place for, and returns how many there are. Errors, in order:
/// `SymbolsSize`; those of the first subsection or block that is refused.
pub(crate) fn put_lines(
    bytes: &[u8],
    sections: &SectionHeaders<'_>,
    room: &mut [LineEntry],
) -> Result<usize>
    ensures puts { PutsLines (module_lines sections.now.bytes.now bytes.now) room.new result }
    ensures few { IfOk result (λ n. n < 2 ^ 32) }
    ensures len { length room.new ≡ length room.old }
{
    if bytes.len() as u64 >= UNIT {
        return Err(PdbError::SymbolsSize);
    }
    let mut count = 0;
    let mut next = 0;
    while next < bytes.len() {
        let subsection = Subsection::parse(bytes, next)?;
        count = put_subsection(sections, &subsection, room, count)?;
        next = subsection.end();
    }
    Ok(count)
}
