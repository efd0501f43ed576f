//! Lines of a module, in its stream after its symbols: rows that say of code of which line of which source file it is. Rows stand in no
//! order, and one reaches to the next by RVA: so an index has them sorted. A row names its file by an offset in the source files of
//! the module; these have offsets in the names of all source files, the stream that the info stream names `/names`.
//! https://llvm.org/docs/PDB/ModiStream.html

ghost use Rattle.std.specs.Prelude.{◌≡◌, ◌≤◌, IfOk, IfSome, length};
ghost use Rattle.calls_pdb.specs.PdbLines.{file_name, files_at, first_files, indexed_lines};
ghost use Rattle.calls_pdb.specs.Pdbs.{pdb_answer};
ghost use Rattle.pe_pdb.specs.Frames.{line_with};
ghost use Rattle.pe_pdb.specs.LineIndexes.{PutsLineIndex};
ghost use Rattle.pe_pdb.specs.Lines.{subsections};
ghost use Rattle.pe_pdb.specs.Refusals.{PdbReturns};
ghost use Rattle.pe_pdb.specs.Scans.{found_in};

use crate::pdb::part_of;
use calls_base::ranges::Range;
use pe_pdb::{
    CodeLine, DEBUG_S_FILECHKSMS, FileChecksum, LineEntry, Names, Result, SectionHeaders,
    Subsection, find_line, put_line_index,
};

/// The size of what comes before the content of a subsection in bytes.
const SIZE_OF_PREFIX: u64 = 8;

/// Where the texts of the names start.
const FIRST_NAME: u64 = 12;

/// Makes the index of the lines in a range of the stream of a module.
pub fn put_lines(
    bytes: &[u8],
    lines: &Range,
    sections: &[u8],
    room: &mut [LineEntry],
) -> Result<std::result::Result<usize, usize>>
    ensures { PutsLineIndex (indexed_lines bytes.now lines.now sections.now) room.old room.new result }
{
    let sections = SectionHeaders::parse(sections)?;
    put_line_index(part_of(bytes, lines)?, &sections, room)
}

/// The line of an RVA, of the lines in a range of the stream of a module.
pub fn read_line(bytes: &[u8], lines: &Range, sections: &[u8], rva: u32) -> Result<Option<CodeLine>>
    ensures { PdbReturns (λ o. o) result
        (found_in (λ xs. line_with xs rva) (indexed_lines bytes.now lines.now sections.now)) }
{
    let sections = SectionHeaders::parse(sections)?;
    find_line(part_of(bytes, lines)?, &sections, rva)
}

/// The range of the source files in the lines of a module.
fn files_in(lines: &[u8]) -> Result<Option<Range>>
    ensures value { pdb_answer result ≡ first_files (subsections lines.now 0) }
    ensures inside { IfOk result (λ o. IfSome o (λ r. r.offset ≤ length lines.now)) }
{
    match Subsection::find(lines, DEBUG_S_FILECHKSMS)? {
        Some(files) => Ok(Some(Range {
            offset: files.offset as u64 + SIZE_OF_PREFIX,
            length: files.content.len() as u64,
        })),
        None => Ok(None),
    }
}

pub fn files_at(bytes: &[u8], lines: &Range) -> Result<Option<Range>>
    ensures { pdb_answer result ≡ files_at bytes.now lines.now }
{
    match files_in(part_of(bytes, lines)?)? {
        Some(files) => Ok(Some(Range {
            offset: lines.offset + files.offset,
            length: files.length,
        })),
        None => Ok(None),
    }
}

pub fn file_name(bytes: &[u8], files: &Range, names: &[u8], file: u32) -> Result<Range>
    ensures { pdb_answer result ≡ file_name bytes.now files.now names.now file }
{
    let record = FileChecksum::parse(part_of(bytes, files)?, file as usize)?;
    let name = Names::parse(names)?.name_at(record.name_offset)?;
    Ok(Range {
        offset: FIRST_NAME + u64::from(record.name_offset),
        length: name.len() as u64,
    })
}
