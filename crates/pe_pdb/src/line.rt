//! Lines of a module ([layout](https://llvm.org/docs/PDB/ModiStream.html)), in the stream of the module after its symbols:
//! subsections of a kind and a size, up to a multiple of four. Those with lines (`DEBUG_S_LINES`) say of a piece of code which line
//! each offset in it is of: blocks, one of each source file, with rows of 8 bytes. A row reaches to the next one by offset, of
//! whatever block; of several at one offset the last counts.
//!
//! A block names its file by an offset in the subsection `DEBUG_S_FILECHKSMS` of the same module.

ghost use Rattle.std.specs.Prelude.{◌≡◌, ◌+◌, ◌-◌, ◌*◌, ◌/◌, ◌≤◌, ◌<◌, ◌^◌, length, IfOk, IfSome};
ghost use Rattle.std.specs.Iterator.{at_most};
ghost use Rattle.std.specs.Option.{option_map};
ghost use Rattle.pe_pdb.specs.Lines.{RowAt, block_at, block_end, block_view, blocks, blocks_left, first_of_kind, later_row, line_bytes_of, line_header, line_header_of, line_row, row_of, subsection_at, subsection_end, subsection_view, subsections, subsections_left};
ghost use Rattle.pe_pdb.specs.Refusals.{PdbReturns};
ghost use Rattle.pe_pdb.specs.Walks.{Takes};

use crate::error::{PdbError, Result, require_bytes, require_record};
use crate::module::ModuleRecord;
use pe_core::{read_u16, read_u32};

/// A subsection with the lines of a piece of code.
pub const DEBUG_S_LINES: u32 = 0xF2;

/// The subsection with the source files of a module, and their checksums.
pub const DEBUG_S_FILECHKSMS: u32 = 0xF4;

/// Where the blocks start in a subsection of lines.
pub const FIRST_BLOCK: usize = 12;

/// The size of what comes before the content of a subsection, in bytes.
const SIZE_OF_PREFIX: usize = 8;

/// The size of a block without its rows, in bytes.
const SIZE_OF_BLOCK: usize = 12;

/// The size of a row in bytes.
const SIZE_OF_ROW: usize = 8;

impl ModuleRecord {
    /// The lines of the module, of the bytes of its stream: subsections. Error: `RecordTruncated` if they pass the end of the stream.
    pub fn line_bytes<'s>(&self, stream: &'s [u8]) -> Result<&'s [u8]>
        ensures { PdbReturns (λ b. b.now) result (line_bytes_of self.now stream.entry.now) }
    {
        let offset = self.symbols_size as usize + self.c11_size as usize;
        let size = self.c13_size as usize;
        require_record(stream, offset, size)?;
        Ok(&stream[offset..offset + size])
    }
}

/// A subsection.
#[derive(Clone, Copy)]
pub struct Subsection<'a> {
    /// Where it starts in the lines of the module.
    pub offset: usize,
    /// What it has, `DEBUG_S_LINES` and others. A debugger leaves it out where bit 31 is set.
    pub kind: u32,
    pub content: &'a [u8],
}

impl<'a> Subsection<'a> {
    /// The subsection at an offset. Errors, in order: `Short` if fewer than eight bytes follow; `RecordTruncated`.
    #[tactic(auto, unfolding(crate::specs::Lines::subsection_at))]
    pub fn parse(bytes: &'a [u8], offset: usize) -> Result<Subsection<'a>>
        ensures value { PdbReturns subsection_view result (subsection_at bytes.entry.now offset) }
        ensures start { IfOk result (λ s. s.offset ≡ offset) }
        ensures inside { IfOk result (λ s. s.offset + 8 + length s.content.now ≤ length bytes.entry.now) }
    {
        require_bytes(bytes, offset, SIZE_OF_PREFIX)?;
        let start = offset + SIZE_OF_PREFIX;
        let size = read_u32(bytes, offset + 4) as usize;
        require_record(bytes, offset, SIZE_OF_PREFIX + size)?;
        Ok(Subsection {
            offset,
            kind: read_u32(bytes, offset),
            content: &bytes[start..start + size],
        })
    }

    /// The first subsection of a kind, of the lines of a module. `None` without one. Errors, in order: those of `parse`, of a subsection
    /// before it.
    pub fn find(bytes: &'a [u8], kind: u32) -> Result<Option<Subsection<'a>>>
        ensures value { PdbReturns (option_map subsection_view) result (first_of_kind kind (subsections bytes.entry.now 0)) }
        ensures inside { IfOk result (λ o. IfSome o (λ s. s.offset + 8 + length s.content.now ≤ length bytes.entry.now)) }
    {
        let mut next = 0;
        while next < bytes.len() {
            let subsection = Subsection::parse(bytes, next)?;
            if subsection.kind == kind {
                return Ok(Some(subsection));
            }
            next = subsection.end();
        }
        Ok(None)
    }

    /// Where the next one starts.
    #[tactic(auto, using(std::proofs::lemmas::Grind::div_ceil_times))]
    pub(crate) fn end(&self) -> usize
        requires { self.now.offset + 12 + length self.now.content.now < 2 ^ 64 }
        ensures value { result ≡ subsection_end (subsection_view self.now) }
        ensures later { self.now.offset < result }
    {
        (self.offset + SIZE_OF_PREFIX + self.content.len()).div_ceil(4) * 4
    }
}

/// The subsections that are left. It is over after an error.
#[derive(Clone, Copy)]
pub struct Subsections<'a> {
    bytes: &'a [u8],
    next: usize,
}

impl<'a> Subsections<'a> {
    /// The subsections of the lines of a module.
    pub fn new(bytes: &'a [u8]) -> Subsections<'a>
        ensures { subsections_left result ≡ subsections bytes.entry.now 0 }
    {
        Subsections { bytes, next: 0 }
    }
}

impl<'a> Iterator for Subsections<'a> {
    type Item = Result<Subsection<'a>>;

    ghost next_gives = { λ s r t. Takes subsection_view (subsections_left s) r (subsections_left t) };

    ghost remaining = { λ s. at_most (length s.bytes.now - s.next) };

    fn next(&mut self) -> Option<Result<Subsection<'a>>> {
        if self.next >= self.bytes.len() {
            return None;
        }
        match Subsection::parse(self.bytes, self.next) {
            Ok(subsection) => {
                self.next = subsection.end();
                Some(Ok(subsection))
            }
            Err(error) => {
                self.next = self.bytes.len();
                Some(Err(error))
            }
        }
    }
}

/// What a subsection of lines starts with, 12 bytes: which code its lines are of.
#[repr(C)]
#[derive(Clone, Copy)]
pub struct LineHeader {
    /// Where the code starts in its section.
    pub offset: u32,
    /// The number of the section, from 1 on.
    pub section: u16,
    /// Bit 0: columns follow the rows of each block.
    pub flags: u16,
    /// The size of the code in bytes.
    pub size: u32,
}

impl LineHeader {
    /// The start of a subsection with this content. Error: `Short` if there are fewer than 12 bytes.
    #[tactic(auto, unfolding(crate::specs::Lines::line_header))]
    pub fn parse(content: &[u8]) -> Result<LineHeader>
        ensures { PdbReturns (λ h. h) result (line_header_of content.now) }
    {
        require_bytes(content, 0, FIRST_BLOCK)?;
        Ok(LineHeader {
            offset: read_u32(content, 0),
            section: read_u16(content, 4),
            flags: read_u16(content, 6),
            size: read_u32(content, 8),
        })
    }
}

/// A row: from this offset on the code is of this line.
#[repr(C)]
#[derive(Clone, Copy)]
pub struct LineRow {
    /// The offset from the start of the subsection's code.
    pub offset: u32,
    /// The line, of 24 bits. F00F00h and FEEFEEh are none.
    pub line: u32,
}

/// The row with an index, which the caller knows to be there.
#[tactic(auto, unfolding(crate::specs::Lines::line_row))]
pub(crate) fn row_in(rows: &[u8], index: usize) -> LineRow
    requires { index < length rows.now / 8 }
    ensures { result ≡ line_row rows.now (8 * index) }
{
    let offset = SIZE_OF_ROW * index;
    LineRow {
        offset: read_u32(rows, offset),
        // Above the line stand how many lines the row is of, and whether it starts a statement.
        line: read_u32(rows, offset + 4) % (1 << 24),
    }
}

/// The later one of the row that was found and the next one, if that is at or before an offset.
fn later_row(found: Option<LineRow>, row: LineRow, offset: u32) -> Option<LineRow>
    ensures { result ≡ later_row found row offset }
{
    if row.offset > offset {
        return found;
    }
    match found {
        Some(last) if row.offset < last.offset => Some(last),
        _ => Some(row),
    }
}

/// The rows of one source file.
#[derive(Clone, Copy)]
pub struct LineBlock<'a> {
    /// Where it starts in the content of its subsection.
    pub offset: usize,
    /// Its file: an offset in the content of `DEBUG_S_FILECHKSMS`.
    pub file: u32,
    /// The size of the block in bytes, with its columns.
    pub size: u32,
    /// The rows, 8 bytes each.
    pub rows: &'a [u8],
}

impl<'a> LineBlock<'a> {
    /// The block at an offset. Errors, in order: `Short` if fewer than 12 bytes follow; `RecordTruncated` if its rows pass its end, or
    /// the block passes the end of the subsection.
    #[tactic(auto, unfolding(crate::specs::Lines::block_at))]
    pub fn parse(content: &'a [u8], offset: usize) -> Result<LineBlock<'a>>
        ensures value { PdbReturns block_view result (block_at content.entry.now offset) }
        ensures start { IfOk result (λ b. b.offset ≡ offset) }
        ensures inside { IfOk result (λ b. b.offset + b.size ≤ length content.entry.now) }
        ensures room { IfOk result (λ b. 12 + length b.rows.now ≤ b.size) }
    {
        require_bytes(content, offset, SIZE_OF_BLOCK)?;
        let rows = SIZE_OF_ROW * read_u32(content, offset + 4) as usize;
        let size = read_u32(content, offset + 8) as usize;
        if size < SIZE_OF_BLOCK + rows {
            return Err(PdbError::RecordTruncated {
                offset,
                needed: SIZE_OF_BLOCK + rows,
                length: size,
            });
        }
        require_record(content, offset, size)?;
        let start = offset + SIZE_OF_BLOCK;
        Ok(LineBlock {
            offset,
            file: read_u32(content, offset),
            size: size as u32,
            rows: &content[start..start + rows],
        })
    }

    /// The row with an index. `None` past the last.
    pub fn row(&self, index: usize) -> Option<LineRow>
        ensures { result ≡ row_of self.now.rows.now index }
    {
        if index >= self.rows.len() / SIZE_OF_ROW {
            return None;
        }
        Some(row_in(self.rows, index))
    }

    /// The row that an offset from the start of the subsection's code has in this block: the last by offset at or before it, of several at
    /// one offset that of the greatest index. `None` where all are after it. Of several blocks the row with the greatest offset counts.
    pub fn row_at(&self, offset: u32) -> Option<LineRow>
        ensures { RowAt self.now.rows.now (length self.now.rows.now / 8) offset result }
    {
        let mut found = None;
        for index in 0..self.rows.len() / SIZE_OF_ROW {
            found = later_row(found, row_in(self.rows, index), offset);
        }
        found
    }

    /// Where the next one starts.
    pub(crate) fn end(&self) -> usize
        requires { self.now.offset + self.now.size < 2 ^ 64 }
        ensures { result ≡ block_end (block_view self.now) }
    {
        self.offset + self.size as usize
    }
}

/// The blocks that are left. It is over after an error.
#[derive(Clone, Copy)]
pub struct LineBlocks<'a> {
    bytes: &'a [u8],
    next: usize,
}

impl<'a> LineBlocks<'a> {
    /// The blocks of a subsection of lines with this content.
    pub fn new(content: &'a [u8]) -> LineBlocks<'a>
        ensures { blocks_left result ≡ blocks content.entry.now 12 }
    {
        LineBlocks {
            bytes: content,
            next: FIRST_BLOCK,
        }
    }
}

impl<'a> Iterator for LineBlocks<'a> {
    type Item = Result<LineBlock<'a>>;

    ghost next_gives = { λ s r t. Takes block_view (blocks_left s) r (blocks_left t) };

    ghost remaining = { λ s. at_most (length s.bytes.now - s.next) };

    fn next(&mut self) -> Option<Result<LineBlock<'a>>> {
        if self.next >= self.bytes.len() {
            return None;
        }
        match LineBlock::parse(self.bytes, self.next) {
            Ok(block) => {
                self.next = block.end();
                Some(Ok(block))
            }
            Err(error) => {
                self.next = self.bytes.len();
                Some(Err(error))
            }
        }
    }
}
