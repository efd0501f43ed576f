//! The line of an RVA: an index of the lines of a module, in a room that the caller has. It is sorted once, and each RVA is looked up
//! by binary search. A row reaches to the next row by offset, of whatever block and subsection, at most to the end of its
//! subsection's code; of several at one offset the last counts.

ghost use Rattle.std.specs.Prelude.{◌≡◌, ◌+◌, ◌≤◌, ◌*◌, ◌^◌, List, length};
ghost use Rattle.pe_pdb.specs.LineEntries.{count_of, module_lines};
ghost use Rattle.pe_pdb.specs.LineKeys.{line_key};
ghost use Rattle.pe_pdb.specs.Lookups.{digits};
ghost use Rattle.pe_pdb.specs.LineIndexes.{AreEntries, IndexesLines, LastBefore, LineAt, PutsLineIndex, PutsSortedLines, if_covers, in_room, is_line};
ghost use Rattle.pe_pdb.specs.Refusals.{PdbReturns};
ghost use Rattle.pe_pdb.specs.declared.line_entries.CodeLine.{CodeLine as Line};
ghost use Rattle.std.specs.List.Sorted.{IsNonDecreasingBy, IsPermutation};

use crate::counted_entries::CountedEntries;
use crate::error::{PdbError, Result};
use crate::line_entries::{CodeLine, LineEntry, UNIT, put_lines};
use crate::line_index::LineIndex;
use crate::sections::SectionHeaders;

/// The lines that stand for none: of code that a debugger steps over, or into.
const HIDDEN: u32 = 0xF0_0F00;

const STEPPED_INTO: u32 = 0xFE_EFEE;

/// Whether a number is that of a line.
pub(crate) fn is_line(number: u32) -> bool
    ensures { result ≡ is_line number }
{
    !matches!(number, 0 | HIDDEN | STEPPED_INTO)
}

/// What entries are sorted by.
fn key_of(rva: u32, index: u32) -> u64
    ensures { result ≡ rva * 2 ^ 32 + index }
{
    u64::from(rva) * UNIT + u64::from(index)
}

impl<'r> LineIndex<'r> {
    /// How many entries an index has of the lines of a module, the bytes of `ModuleRecord::line_bytes`: as many as a room for it has to
    /// have. Errors, in order: `SymbolsSize`; those of the first subsection, or block of rows, that is refused.
    pub fn count(bytes: &[u8], sections: &SectionHeaders<'_>) -> Result<usize>
        ensures { PdbReturns (λ n. n) result (count_of (module_lines sections.now.bytes.now bytes.now)) }
    {
        put_lines(bytes, sections, &mut [])
    }

    /// These entries, sorted.
    fn sorted(room: &'r mut [LineEntry]) -> LineIndex<'r>
        ensures { IsPermutation room.old result.entries.now }
    {
        room.sort_unstable_by_key(|entry| key_of(entry.line.rva, entry.index));
        LineIndex { entries: room }
    }

    /// The index of the lines of a module. A row whose offset is not below the size of its code is left out, as is one in no section. What
    /// is in the room after the call is left open. Errors, in order: those of `count`; `Room` if the room has fewer entries than the
    /// index.
    pub fn new(
        bytes: &[u8],
        sections: &SectionHeaders<'_>,
        room: &'r mut [LineEntry],
    ) -> Result<LineIndex<'r>>
        ensures { IndexesLines (in_room (length room.old) (module_lines sections.now.bytes.now bytes.now)) result }
    {
        let count = put_lines(bytes, sections, room)?;
        if room.len() < count {
            return Err(PdbError::Room {
                needed: count,
                length: room.len(),
            });
        }
        Ok(LineIndex::sorted(&mut room[..count]))
    }

    /// The line of an RVA, with where its code starts, its file and column. `None` where no code with lines is, and where the code is of no
    /// line: 0, F00F00h, FEEFEEh.
    pub fn line_at(&self, rva: u32) -> Option<CodeLine>
        ensures { (xs : List Line) → AreEntries xs self.now.entries.now → LineAt xs rva result }
    {
        line_in(self.entries, rva)
    }
}

/// Writes the entries of an index, sorted, to the start of a room, and returns how many there are; the rest of the room is unchanged. `Err`
/// of that number where the room has fewer; then nothing changes. Errors, which change nothing: those of `LineIndex::count`.
pub fn put_line_index(
    bytes: &[u8],
    sections: &SectionHeaders<'_>,
    room: &mut [LineEntry],
) -> Result<std::result::Result<usize, usize>>
    ensures { PutsLineIndex (module_lines sections.now.bytes.now bytes.now) room.old room.new result }
{
    let count = LineIndex::count(bytes, sections)?;
    if room.len() < count {
        return Ok(Err(count));
    }
    put_sorted(bytes, sections, room.split_at_mut(count).0);
    Ok(Ok(count))
}

/// Writes them to a room of as many entries.
fn put_sorted(bytes: &[u8], sections: &SectionHeaders<'_>, room: &mut [LineEntry])
    requires { count_of (module_lines sections.now.bytes.now bytes.now) ≡ Ok (length room.old) }
    ensures { PutsSortedLines (module_lines sections.now.bytes.now bytes.now) room.old room.new }
{
    if let Ok(_) = put_lines(bytes, sections, room) {
        room.sort_unstable_by_key(|entry| key_of(entry.line.rva, entry.index));
    }
}

/// The last line whose code starts at or before an RVA. It reads at most as many entries as their number has binary digits, and two;
/// `entries` counts these reads.
#[inline(always)]
pub fn search_lines(entries: &mut CountedEntries<'_, LineEntry>, rva: u32) -> Option<CodeLine>
    ensures found { IsNonDecreasingBy line_key entries.old.entries.now → (xs : List Line) → AreEntries xs entries.old.entries.now → LastBefore xs rva result }
    ensures cost { entries.new.reads ≤ entries.old.reads + digits (length entries.old.entries.now) + 2 }
{
    let after = entries.count_up_to(u64::from(rva));
    if after == 0 {
        return None;
    }
    Some(entries.get(after - 1).line)
}

/// What `LineIndex::line_at` finds in the entries of an index. Where entries do not ascend, which those of an index do, what is found is
/// left open.
pub fn line_in(entries: &[LineEntry], rva: u32) -> Option<CodeLine>
    ensures { IsNonDecreasingBy line_key entries.now → (xs : List Line) → AreEntries xs entries.now → LineAt xs rva result }
{
    if_covers(rva, search_lines(&mut CountedEntries::new(entries), rva))
}

/// The last line at or before an RVA, if its code has the RVA, and it is one.
#[inline(always)]
pub(crate) fn if_covers(rva: u32, last: Option<CodeLine>) -> Option<CodeLine>
    ensures { result ≡ if_covers rva last }
{
    let found = last?;
    if rva.saturating_sub(found.rva) < found.code_size && is_line(found.line) {
        return Some(found);
    }
    None
}
