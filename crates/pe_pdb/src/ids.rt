//! The streams of [types and ids](https://llvm.org/docs/PDB/TpiStream.html): records that others name by an index, which counts
//! from that of the first on. Their layout is that of symbols (`SymbolRecord`). An inlined function is named by an id, whose
//! record has its name.
//!
//! Records have no place of their own, so a caller writes the starts of all of them into a room once (`put_starts`), and reads the
//! record with an index where it starts.

ghost use Rattle.std.specs.Prelude.{◌≡◌, ◌+◌, ◌-◌, ◌≤◌, drop, length, IfOk, IfSome};
ghost use Rattle.std.specs.Option.{option_map};
ghost use Rattle.pe_pdb.specs.Ids.{AreStarts, count_of, function_id_of, function_id_view, record_by, starts_in, whole_count, string_id_of, types_of, types_view};
ghost use Rattle.pe_pdb.specs.Refusals.{PdbReturns};
ghost use Rattle.pe_pdb.specs.Symbols.{symbol_view};

use crate::error::{PdbError, Result, require_bytes, require_record};
use crate::record_text::record_text;
use crate::symbol::SymbolRecord;
use pe_core::read_u32;

/// The index of the stream of types.
pub const TYPE_STREAM: u32 = 2;

/// The index of the stream of ids.
pub const ID_STREAM: u32 = 4;

/// A function: its scope is a namespace, the index of a `LF_STRING_ID`, or 0.
pub const LF_FUNC_ID: u16 = 0x1601;

/// A member function: its scope is a class, an index of the stream of types.
pub const LF_MFUNC_ID: u16 = 0x1602;

/// A text.
pub const LF_STRING_ID: u16 = 0x1605;

/// The size of the header of a stream in bytes.
const SIZE_OF_HEADER: usize = 56;

/// How many bytes come before the name of a function, and before a text.
const FUNCTION_NAME: usize = 8;

const STRING: usize = 4;

/// The records of a stream of types or ids.
#[derive(Clone, Copy)]
pub struct TypeRecords<'a> {
    /// The index of the first record.
    pub first: u32,
    /// The index after that of the last one.
    pub end: u32,
    /// Where the records start in the stream.
    pub offset: usize,
    /// The records, for `SymbolRecord::parse`.
    pub records: &'a [u8],
}

/// A function, by its record in the stream of ids.
#[derive(Clone, Copy)]
pub struct FunctionId<'a> {
    /// What it is in: of `LF_FUNC_ID` an id, of `LF_MFUNC_ID` a type.
    pub scope: u32,
    /// Its type, an index of the stream of types.
    pub type_index: u32,
    /// Its name, without its scope.
    pub name: &'a str,
}

impl<'a> TypeRecords<'a> {
    /// The records of a stream that has these bytes. Errors, in order: `Short` if there are fewer than 56; `RecordTruncated` if
    /// the records pass the end.
    #[tactic(auto, unfolding(crate::specs::Ids::types_of))]
    pub fn parse(bytes: &'a [u8]) -> Result<TypeRecords<'a>>
        ensures value { PdbReturns types_view result (types_of bytes.entry.now) }
        ensures inside { IfOk result (λ t. t.offset + length t.records.now ≤ length bytes.entry.now) }
    {
        require_bytes(bytes, 0, SIZE_OF_HEADER)?;
        let start = read_u32(bytes, 4) as usize;
        let size = read_u32(bytes, 16) as usize;
        require_record(bytes, start, size)?;
        Ok(TypeRecords {
            first: read_u32(bytes, 8),
            end: read_u32(bytes, 12),
            offset: start,
            records: &bytes[start..start + size],
        })
    }

    /// How many records the stream says that it has: as many as a room for their starts has to have.
    pub fn len(&self) -> usize
        ensures { result ≡ count_of (types_view self.now) }
    {
        self.end.saturating_sub(self.first) as usize
    }

    /// How many records there are, where each of them is whole. Errors: those of `SymbolRecord::parse`, of the first record that
    /// is refused.
    pub fn count(&self) -> Result<usize>
        ensures { PdbReturns (λ n. n) result (whole_count (types_view self.now)) }
    {
        let count = self.len();
        let mut next = 0;
        let mut index = 0;
        while index < count {
            let record = SymbolRecord::parse(self.records, next)?;
            next = record.end();
            index += 1;
        }
        Ok(count)
    }

    /// Writes the start of each record in `records` into a room, that of the first at the start, and returns how many there are.
    /// The rest of the room is unchanged; after an error what was written is left. Errors, in order: `Room` if the room has fewer
    /// entries; those of `SymbolRecord::parse`, of the first record that is refused.
    pub fn put_starts(&self, room: &mut [u64]) -> Result<usize>
        ensures count { PdbReturns (λ n. n) result (starts_in (length room.old) (types_view self.now)) }
        ensures starts { IfOk result (λ n. AreStarts self.now.records.now room.new n) }
        ensures rest { IfOk result (λ n. (length room.new ≡ length room.old) × (drop n room.new ≡ drop n room.old)) }
    {
        let count = self.len();
        if room.len() < count {
            return Err(PdbError::Room {
                needed: count,
                length: room.len(),
            });
        }
        let mut next = 0;
        for index in 0..count {
            let record = SymbolRecord::parse(self.records, next)?;
            room[index] = next as u64;
            next = record.end();
        }
        Ok(count)
    }

    /// The record with an index, by the starts that `put_starts` wrote: by others it is what stands there. `None` of an index that
    /// the stream does not have, or that has no start. Errors: those of `SymbolRecord::parse`.
    pub fn get(&self, starts: &[u64], index: u32) -> Result<Option<SymbolRecord<'a>>>
        ensures value { PdbReturns (option_map symbol_view) result (record_by (types_view self.now) starts.now index) }
        ensures inside { IfOk result (λ o. IfSome o (λ r. r.offset + 4 + length r.content.now ≤ length self.now.records.now)) }
    {
        if index < self.first || index >= self.end {
            return Ok(None);
        }
        match starts.get((index - self.first) as usize) {
            Some(start) => Ok(Some(SymbolRecord::parse(self.records, *start as usize)?)),
            None => Ok(None),
        }
    }
}

impl<'a> FunctionId<'a> {
    /// The function of a record of kind `LF_FUNC_ID` or `LF_MFUNC_ID` with this content. Errors, in order: `Short` if there are
    /// fewer than eight bytes; `Name`.
    #[tactic(auto, unfolding(crate::specs::Ids::function_id_of))]
    pub fn parse(content: &'a [u8]) -> Result<FunctionId<'a>>
        ensures { PdbReturns function_id_view result (function_id_of content.entry.now) }
    {
        require_bytes(content, 0, FUNCTION_NAME)?;
        match record_text(content, FUNCTION_NAME) {
            Some(name) => Ok(FunctionId {
                scope: read_u32(content, 0),
                type_index: read_u32(content, 4),
                name,
            }),
            None => Err(PdbError::Name(FUNCTION_NAME)),
        }
    }
}

/// The text of a record of kind `LF_STRING_ID` with this content: the name of a namespace and others. Errors, in order: `Short`
/// if there are fewer than four bytes; `Name`.
#[tactic(auto, unfolding(crate::specs::Ids::string_id_of))]
pub fn string_id(content: &[u8]) -> Result<&str>
    ensures { PdbReturns (λ s. s.now) result (string_id_of content.now) }
{
    require_bytes(content, 0, STRING)?;
    match record_text(content, STRING) {
        Some(text) => Ok(text),
        None => Err(PdbError::Name(STRING)),
    }
}
