//! The calls of `lines` in calls_pdb.

ghost use Rattle.calls_pdb.specs.PdbLines.{FindsLine, HandsOutLines, ReadsLine, file_name, files_at, indexed_lines};
ghost use Rattle.calls_pdb.specs.Pdbs.{PdbHandsOut, PdbHandsOutIf};
ghost use Rattle.pe_pdb.specs.Names.{named_stream};

use calls_base::ranges::Range;
use calls_base::results::{DONE, NOTHING, ROOM};
use calls_pdb::lines::{file_name, files_at, put_lines, read_line};
use calls_pdb::pdb::{hand_out_pdb, hand_out_pdb_if, number_of_pdb};
use pe_pdb::{CodeLine, LineEntry, line_in, named_stream};

/// Makes an index of the lines of a module by their RVAs at the start of `room`, sorted, and writes to `written` how many entries it has;
/// the rest of the room is unchanged. `bytes` are those of the stream of the module, and `lines` is its range of lines. Rows outside of
/// the code of their subsection, or in no section, are left out. It takes n log n steps.
///
/// Errors: `PDB_SECTION_HEADERS`; `SHORT` where the range is not inside the bytes; `PDB_SYMBOLS_SIZE`; `SHORT` and `PDB_RECORD_TRUNCATED` of
/// the first subsection or block of rows that is refused; `ROOM`, and then `written` is how many entries the room has to have. An
/// error changes nothing else.
#[unsafe(no_mangle)]
pub extern "C" fn pe_c_pdb_lines(
    bytes: &[u8],
    lines: &Range,
    sections: &[u8],
    room: &mut [LineEntry],
    written: &mut u64,
) -> u32
    ensures { HandsOutLines (indexed_lines bytes.now lines.now sections.now) result room.old room.new written.old written.new }
{
    match put_lines(bytes, lines, sections, room) {
        Ok(Ok(count)) => {
            *written = count as u64;
            DONE
        }
        Ok(Err(needed)) => {
            *written = needed as u64;
            ROOM
        }
        Err(error) => number_of_pdb(&error),
    }
}

/// Finds the line of an RVA by an index that `pe_c_pdb_lines` made: that of the last row at or before it, of several at one RVA the last in
/// the order of the module. `NOTHING` where the code of no row has the RVA, and where the code is of no line: 0, 0xF00F00, 0xFEEFEE. With
/// other entries it finds the line of one of them, or none.
#[unsafe(no_mangle)]
pub extern "C" fn pe_c_find_pdb_line(index: &[LineEntry], rva: u32, out: &mut CodeLine) -> u32
    ensures { FindsLine index.now rva result out.old out.new }
{
    match line_in(index, rva) {
        Some(line) => {
            *out = line;
            DONE
        }
        None => NOTHING,
    }
}

/// Finds the line of an RVA without an index, as `pe_c_find_pdb_line` by one that `pe_c_pdb_lines` made of the same arguments. It reads all
/// rows once: for a few RVAs that takes less than to make an index.
///
/// Errors: those of `pe_c_pdb_lines` but `ROOM`.
#[unsafe(no_mangle)]
pub extern "C" fn pe_c_read_pdb_line(
    bytes: &[u8],
    lines: &Range,
    sections: &[u8],
    rva: u32,
    out: &mut CodeLine,
) -> u32
    ensures { ReadsLine (indexed_lines bytes.now lines.now sections.now) rva result out.old out.new }
{
    match read_line(bytes, lines, sections, rva) {
        Ok(Some(line)) => {
            *out = line;
            DONE
        }
        Ok(None) => NOTHING,
        Err(error) => number_of_pdb(&error),
    }
}

/// Returns the range of the source files of a module in its stream, for `pe_c_pdb_file_name`: `NOTHING` without any. `lines` is its range
/// of lines.
///
/// Errors: `SHORT` where the range is not inside the bytes; `SHORT`, `PDB_RECORD_TRUNCATED` of a subsection before that of the files.
#[unsafe(no_mangle)]
pub extern "C" fn pe_c_pdb_files(bytes: &[u8], lines: &Range, out: &mut Range) -> u32
    ensures { PdbHandsOutIf result out.old out.new (files_at bytes.now lines.now) }
{
    hand_out_pdb_if(files_at(bytes, lines), out)
}

/// Returns the range of the name of a source file in `names`, the bytes of the stream `/names`, without its final zero. `files` is what
/// `pe_c_pdb_files` returned of the stream of the module, and `file` what a line has.
///
/// Errors: `SHORT` where the range is not inside the bytes; `SHORT`, `PDB_RECORD_TRUNCATED` of the record of the file; `SHORT` where there are
/// fewer than 12 bytes of names, `PDB_NAMES_SIGNATURE`, `PDB_RECORD_TRUNCATED`; `PDB_NAME`.
#[unsafe(no_mangle)]
pub extern "C" fn pe_c_pdb_file_name(
    bytes: &[u8],
    files: &Range,
    names: &[u8],
    file: u32,
    out: &mut Range,
) -> u32
    ensures { PdbHandsOut result out.old out.new (file_name bytes.now files.now names.now file) }
{
    hand_out_pdb(file_name(bytes, files, names, file), out)
}

/// Returns the number of the stream with a name, such as `/names`, by the bytes of the info stream, stream 1: `NOTHING` without one.
///
/// Errors: `SHORT`, `PDB_RECORD_TRUNCATED` where the names of streams pass the end of the bytes.
#[unsafe(no_mangle)]
pub extern "C" fn pe_c_pdb_named_stream(bytes: &[u8], name: &[u8], out: &mut u32) -> u32
    ensures { PdbHandsOutIf result out.old out.new (named_stream bytes.now name.now) }
{
    hand_out_pdb_if(named_stream(bytes, name), out)
}
