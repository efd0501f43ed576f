//! The line of one RVA without an index: the rows of a module are read once, and the best so far is kept. Of a few RVAs that takes less
//! than to sort all lines.

ghost use Rattle.std.specs.Prelude.{◌≡◌, ◌+◌, ◌-◌, ◌≤◌, length, min};
ghost use Rattle.pe_pdb.specs.Frames.{line_with, row_before};
ghost use Rattle.pe_pdb.specs.LineEntries.{block_lines, code_view, lines_of_code, lines_of_subsection, module_lines, rows_in};
ghost use Rattle.pe_pdb.specs.Lines.{block_view, subsection_view};
ghost use Rattle.pe_pdb.specs.Refusals.{PdbReturns};
ghost use Rattle.pe_pdb.specs.Scans.{Finds, FindsDefined, found_in, least_of};

use crate::error::{PdbError, Result};
use crate::line::{DEBUG_S_LINES, FIRST_BLOCK, LineBlock, LineHeader, Subsection, row_in};
use crate::line_entries::{Code, CodeLine, UNIT, code_line};
use crate::line_lookup::if_covers;
use crate::sections::SectionHeaders;

/// From which offset on a row is not before what was found, in code that starts at an RVA.
fn least_of(start: u32, found: Option<CodeLine>) -> u32
    ensures { result ≡ least_of start found }
{
    match found {
        Some(line) => line.rva.saturating_sub(start),
        None => 0,
    }
}

/// Which offset rows have that are after an RVA, or past the code, or a greater one.
fn end_of(code: &Code<'_>, rva: u32) -> u64
    ensures { result ≡ min ((rva + 1) - code.now.rva) code.now.header.size }
{
    (u64::from(rva) + 1)
        .saturating_sub(u64::from(code.rva))
        .min(u64::from(code.header.size))
}

/// The last row of a block at or before an RVA, if it is not before what was found; else that.
fn find_in_block(
    code: &Code<'_>,
    block: &LineBlock<'_>,
    found: Option<CodeLine>,
    rva: u32,
) -> Option<CodeLine>
    requires inside { block.now.offset + block.now.size ≤ length code.now.content.now }
    ensures { Finds (row_before rva) (block_lines (code_view code.now) (block_view block.now) (rows_in (block_view block.now))) found result }
{
    let mut least = u64::from(least_of(code.rva, found));
    let end = end_of(code, rva);
    if end <= least {
        return found;
    }
    let mut last = None;
    for index in 0..block.rows.len() / 8 {
        let offset = u64::from(row_in(block.rows, index).offset);
        if least <= offset && offset < end {
            least = offset;
            last = Some(index);
        }
    }
    match last {
        Some(index) => code_line(code, block, index),
        None => found,
    }
}

/// The same of the blocks of a piece of code.
fn find_in_code(code: &Code<'_>, found: Option<CodeLine>, rva: u32) -> Result<Option<CodeLine>>
    requires { 12 ≤ length code.now.content.now }
    ensures { FindsDefined (row_before rva) (lines_of_code (code_view code.now)) found result }
{
    let mut last = found;
    let mut next = FIRST_BLOCK;
    while next < code.content.len() {
        let block = LineBlock::parse(code.content, next)?;
        last = find_in_block(code, &block, last, rva);
        next = block.end();
    }
    Ok(last)
}

/// The same of a subsection. One of another kind, or in no section, has no rows.
#[tactic(auto, unfolding(crate::specs::LineEntries::lines_of_subsection), using(crate::proofs::Scans::finds_none))]
fn find_in_subsection(
    sections: &SectionHeaders<'_>,
    subsection: &Subsection<'_>,
    found: Option<CodeLine>,
    rva: u32,
) -> Result<Option<CodeLine>>
    ensures { FindsDefined (row_before rva) (lines_of_subsection sections.now.bytes.now (subsection_view subsection.now)) found result }
{
    if subsection.kind != DEBUG_S_LINES {
        return Ok(found);
    }
    let content = subsection.content;
    let header = LineHeader::parse(content)?;
    match sections.rva_of(header.section, header.offset) {
        None => Ok(found),
        Some(start) => find_in_code(
            &Code {
                rva: start,
                header,
                content,
            },
            found,
            rva,
        ),
    }
}

/// The line of an RVA, of the lines of its module: what `LineIndex::line_at` finds. Errors: those of `LineIndex::count`.
pub fn find_line(bytes: &[u8], sections: &SectionHeaders<'_>, rva: u32) -> Result<Option<CodeLine>>
    ensures { PdbReturns (λ o. o) result (found_in (λ xs. line_with xs rva) (module_lines sections.now.bytes.now bytes.now)) }
{
    if bytes.len() as u64 >= UNIT {
        return Err(PdbError::SymbolsSize);
    }
    let mut last = None;
    let mut next = 0;
    while next < bytes.len() {
        let subsection = Subsection::parse(bytes, next)?;
        last = find_in_subsection(sections, &subsection, last, rva)?;
        next = subsection.end();
    }
    Ok(if_covers(rva, last))
}
