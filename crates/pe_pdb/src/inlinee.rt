//! Where inlined functions are in the source ([layout](https://llvm.org/docs/PDB/ModiStream.html)): the subsection
//! `DEBUG_S_INLINEELINES` of a module. The lines of `InlineRow` count from the line of the function's record, whose file is that of
//! rows without one.

ghost use Rattle.std.specs.Prelude.{◌≡◌, ◌==◌, ◌+◌, ◌≤◌, ◌<◌, length, IfOk};
ghost use Rattle.pe_core.specs.Bytes.{le};
ghost use Rattle.pe_pdb.specs.Inlinees.{first_inlinee, inline_line, inlinee_at, inlinee_of, inlinee_row, inlinees};
ghost use Rattle.pe_pdb.specs.Refusals.{PdbReturns};

use crate::error::{Result, require_bytes, require_record};
use crate::inline_rows::InlineRow;
use crate::line_lookup::is_line;
use pe_core::read_u32;

/// The subsection with the inlined functions of a module.
pub const DEBUG_S_INLINEELINES: u32 = 0xF6;

/// The size of a record without other files, in bytes.
const SIZE_OF_RECORD: usize = 12;

/// Where the first record starts.
const FIRST: usize = 4;

/// Where an inlined function is in the source.
#[repr(C)]
#[derive(Clone, Copy)]
pub struct InlineeLine {
    /// Which function it is, an index of the stream of ids.
    pub inlinee: u32,
    /// Its file, an offset in the content of `DEBUG_S_FILECHKSMS`.
    pub file: u32,
    /// Its line.
    pub line: u32,
}

/// A line of a source file.
#[derive(Clone, Copy)]
pub struct SourceLine {
    /// Its file, an offset in the content of `DEBUG_S_FILECHKSMS`.
    pub file: u32,
    /// The line, from 1 on.
    pub line: u32,
}

/// Where the record at an offset ends.
#[tactic(auto, unfolding(crate::specs::Inlinees::inlinee_at))]
fn record_end(extended: bool, bytes: &[u8], offset: usize) -> Result<usize>
    ensures value { PdbReturns (λ end. (inlinee_row bytes.now offset, end)) result (inlinee_at extended bytes.now offset) }
    ensures after { IfOk result (λ end. (offset < end) × (offset + 12 ≤ length bytes.now)) }
{
    require_bytes(bytes, offset, SIZE_OF_RECORD)?;
    let start = offset + SIZE_OF_RECORD;
    if !extended {
        return Ok(start);
    }
    require_bytes(bytes, start, 4)?;
    let size = 4 * read_u32(bytes, start) as usize;
    require_record(bytes, offset, SIZE_OF_RECORD + 4 + size)?;
    Ok(start + 4 + size)
}

/// From where on the records are that may be the first with an id: where they have no other files, those before it are read up to their
/// ids.
#[inline(always)]
fn skip_others(extended: bool, content: &[u8], inlinee: u32) -> usize
    requires { extended ≡ (le content.now 0 4 == 1) }
    ensures { first_inlinee inlinee (inlinees content.now 4) ≡ first_inlinee inlinee (inlinees content.now result) }
{
    let mut next = FIRST;
    if extended || content.len() < SIZE_OF_RECORD {
        return next;
    }
    let last = content.len() - SIZE_OF_RECORD;
    while next <= last && read_u32(content, next) != inlinee {
        next += SIZE_OF_RECORD;
    }
    next
}

impl InlineeLine {
    /// The record at an offset, whose 12 bytes are known to be there.
    #[tactic(auto, unfolding(crate::specs::Inlinees::inlinee_row))]
    fn at(bytes: &[u8], offset: usize) -> InlineeLine
        requires { offset + 12 ≤ length bytes.now }
        ensures { result ≡ inlinee_row bytes.now offset }
    {
        InlineeLine {
            inlinee: read_u32(bytes, offset),
            file: read_u32(bytes, offset + 4),
            line: read_u32(bytes, offset + 8),
        }
    }

    /// Where the function with an id is in the source, by the content of `DEBUG_S_INLINEELINES`: its first record. `None` where
    /// it has none. It reads the records in their order, so a caller looks up few. Errors, in order: `Short` if there are fewer
    /// than four bytes; `Short` or `RecordTruncated` of a record before the function's.
    pub fn find(content: &[u8], inlinee: u32) -> Result<Option<InlineeLine>>
        ensures { PdbReturns (λ r. r) result (inlinee_of content.now inlinee) }
    {
        require_bytes(content, 0, 4)?;
        let extended = read_u32(content, 0) == 1;
        let mut next = skip_others(extended, content, inlinee);
        while next < content.len() {
            let end = record_end(extended, content, next)?;
            let line = InlineeLine::at(content, next);
            if line.inlinee == inlinee {
                return Ok(Some(line));
            }
            next = end;
        }
        Ok(None)
    }

    /// The line of a row of the function. `None` where its code is of no line: 0, F00F00h, FEEFEEh.
    pub fn line_of(&self, row: &InlineRow) -> Option<SourceLine>
        ensures { result ≡ inline_line self.now row.now }
    {
        let line = self.line.wrapping_add(row.line);
        if !is_line(line) {
            return None;
        }
        Some(SourceLine {
            file: row.file.unwrap_or(self.file),
            line,
        })
    }
}
