//! Records of symbols ([layout](https://llvm.org/docs/PDB/CodeViewSymbols.html)), one after the other: how many bytes follow that
//! number, 2 bytes; what the record says (`S_PUB32` and others), 2 bytes; and its content. The stream of symbols has those of the
//! whole image; the stream of a module has its own after 4 bytes.

ghost use Rattle.std.specs.Prelude.{◌≡◌, ◌+◌, ◌-◌, ◌≤◌, ◌<◌, ◌^◌, length, IfOk};
ghost use Rattle.std.specs.Iterator.{at_most};
ghost use Rattle.pe_pdb.specs.Refusals.{PdbReturns};
ghost use Rattle.pe_pdb.specs.Symbols.{symbol_at, symbol_view, symbols, symbols_left};
ghost use Rattle.pe_pdb.specs.Walks.{Takes};

use crate::error::{PdbError, Result, require_bytes, require_record};
use pe_core::read_u16;

/// The size of what comes before a record's content, in bytes.
pub(crate) const SIZE_OF_PREFIX: usize = 4;

/// A record of a symbol.
#[derive(Clone, Copy)]
pub struct SymbolRecord<'a> {
    /// Where it starts, from the start of the bytes that are read.
    pub offset: usize,
    /// What it says, `S_PUB32`, `S_GPROC32` and others.
    pub kind: u16,
    /// The bytes after the kind.
    pub content: &'a [u8],
}

impl<'a> SymbolRecord<'a> {
    /// The record at an offset. Errors, in order: `Short` if fewer than four bytes follow; `RecordSize`; `RecordTruncated`.
    #[tactic(auto, unfolding(crate::specs::Symbols::symbol_at))]
    pub fn parse(bytes: &'a [u8], offset: usize) -> Result<SymbolRecord<'a>>
        ensures value { PdbReturns symbol_view result (symbol_at bytes.entry.now offset) }
        ensures start { IfOk result (λ r. r.offset ≡ offset) }
        ensures inside { IfOk result (λ r. r.offset + 4 + length r.content.now ≤ length bytes.entry.now) }
    {
        require_bytes(bytes, offset, SIZE_OF_PREFIX)?;
        let size = read_u16(bytes, offset);
        if size < 2 {
            return Err(PdbError::RecordSize { offset, size });
        }
        require_record(bytes, offset, 2 + usize::from(size))?;
        let end = offset + 2 + usize::from(size);
        Ok(SymbolRecord {
            offset,
            kind: read_u16(bytes, offset + 2),
            content: &bytes[offset + SIZE_OF_PREFIX..end],
        })
    }

    /// Where the next one starts.
    pub(crate) fn end(&self) -> usize
        requires { self.now.offset + 4 + length self.now.content.now < 2 ^ 64 }
        ensures { result ≡ self.now.offset + 4 + length self.now.content.now }
    {
        self.offset + SIZE_OF_PREFIX + self.content.len()
    }
}

/// The records from an offset on up to the end of their bytes. It is over after an error.
#[derive(Clone, Copy)]
pub struct SymbolRecords<'a> {
    bytes: &'a [u8],
    next: usize,
}

impl<'a> SymbolRecords<'a> {
    /// The records of these bytes, from an offset on.
    pub fn new(bytes: &'a [u8], offset: usize) -> SymbolRecords<'a>
        ensures { symbols_left result ≡ symbols bytes.entry.now offset }
    {
        SymbolRecords {
            bytes,
            next: offset,
        }
    }
}

impl<'a> Iterator for SymbolRecords<'a> {
    type Item = Result<SymbolRecord<'a>>;

    ghost next_gives = { λ s r t. Takes symbol_view (symbols_left s) r (symbols_left t) };

    ghost remaining = { λ s. at_most (length s.bytes.now - s.next) };

    fn next(&mut self) -> Option<Result<SymbolRecord<'a>>> {
        if self.next >= self.bytes.len() {
            return None;
        }
        match SymbolRecord::parse(self.bytes, self.next) {
            Ok(record) => {
                self.next = record.end();
                Some(Ok(record))
            }
            Err(error) => {
                self.next = self.bytes.len();
                Some(Err(error))
            }
        }
    }
}
