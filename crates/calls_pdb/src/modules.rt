//! The modules of a PDB, the objects that were linked. Each has a record and two names in the DBI stream; one that has debug
//! information has a stream of its own, with its symbols and, after them, its lines.
//! https://llvm.org/docs/PDB/DbiStream.html#module-info-substream

ghost use Rattle.std.specs.Prelude.{◌≡◌, ◌+◌, ◌<◌, ◌≤◌, ◌^◌, IfOk, IfSome, length};
ghost use Rattle.pe_pdb.specs.Modules.{module_view};
ghost use Rattle.calls_base.specs.Lists.{Numbered};
ghost use Rattle.calls_pdb.specs.PdbModules.{StepsModules, first_module, module_reported, module_step, module_walk, symbols_range, contributions_at, module_rows};
ghost use Rattle.calls_pdb.specs.Pdbs.{pdb_answer, pdb_number};
ghost use Rattle.pe_pdb.specs.Contributions.{contributions_view};
ghost use Rattle.pe_pdb.specs.Refusals.{PdbReturns};

use crate::pdb::{numbered_pdb, part_of};
use calls_base::lists::Steps;
use calls_base::ranges::{NO_BYTES, Range};
use pe_pdb::{FIRST_SYMBOL, Module, ModuleRecord, Result, SectionContributions, SectionHeaders};

/// The size of a record before its names in bytes.
const SIZE_OF_RECORD: u64 = 64;

/// A module.
#[repr(C)]
#[derive(Clone, Copy)]
pub struct PdbModule {
    /// Its name in the DBI stream, without the final zero: the path of the object, or `* Linker *`.
    pub name: Range,
    /// The path of the library that it is from, or of the object.
    pub file: Range,
    /// The range of its symbols in its stream, a walk over them at its start.
    pub symbols: Range,
    /// The range of its lines in its stream.
    pub lines: Range,
    /// Where its first code is in the section.
    pub code_offset: u32,
    /// How many bytes that is.
    pub code_size: u32,
    /// The number of the section of its first code, from 1 on.
    pub section: u16,
    /// Bit 0: written since the last link; bit 1: edit and continue.
    pub flags: u16,
    /// The stream of the module, or `NO_STREAM`.
    pub stream: u16,
    /// The number of its source files.
    pub number_of_files: u16,
}

/// The range of the symbols of a module in its stream, after the 4 bytes at its start; no bytes where it has none.
fn symbols_range(header: &ModuleRecord) -> Range
    ensures { result ≡ symbols_range header.now }
{
    if header.symbols_size == 0 {
        return NO_BYTES;
    }
    let first = FIRST_SYMBOL as u64;
    Range {
        offset: first,
        length: u64::from(header.symbols_size).saturating_sub(first),
    }
}

/// A module as callers get it, whose record is at an offset of the DBI stream.
fn module_reported(offset: u64, module: &Module<'_>) -> PdbModule
    requires { offset + 66 + length module.now.name.now + length module.now.file.now < 2 ^ 64 }
    ensures { result ≡ module_reported offset (module_view module.now) }
{
    let header = &module.header;
    let name_length = module.name.len() as u64;
    PdbModule {
        name: Range {
            offset: offset + SIZE_OF_RECORD,
            length: name_length,
        },
        file: Range {
            offset: offset + SIZE_OF_RECORD + name_length + 1,
            length: module.file.len() as u64,
        },
        symbols: symbols_range(header),
        lines: Range {
            offset: u64::from(header.symbols_size) + u64::from(header.c11_size),
            length: u64::from(header.c13_size),
        },
        code_offset: header.code_offset,
        code_size: header.code_size,
        section: header.section,
        flags: header.flags,
        stream: header.stream,
        number_of_files: header.files,
    }
}

/// The first module of some bytes, and where the next one starts; none where there are no bytes.
fn first_module(left: &[u8], offset: u64) -> pe_pdb::Result<Option<(PdbModule, usize)>>
    requires { offset + length left.now < 2 ^ 64 }
    ensures value { pdb_answer result ≡ first_module offset left.now }
    ensures inside { IfOk result (λ o. IfSome o (λ x. x.1 ≤ length left.now)) }
{
    if left.is_empty() {
        return Ok(None);
    }
    let module = Module::parse(left, 0)?;
    Ok(Some((
        module_reported(offset, &module),
        module.end().min(left.len()),
    )))
}

/// The next module of a walk.
fn next_module(dbi: &[u8], walk: &mut Range) -> pe_pdb::Result<Option<PdbModule>>
    ensures module { pdb_answer result ≡ module_step dbi.now walk.old }
    ensures walk { walk.new ≡ module_walk dbi.now walk.old }
{
    let range = *walk;
    // The walk is over, unless a step below succeeds.
    *walk = NO_BYTES;
    let left = part_of(dbi, &range)?;
    match first_module(left, range.offset)? {
        Some((module, length)) => {
            *walk = Range {
                offset: range.offset + length as u64,
                length: range.length - length as u64,
            };
            Ok(Some(module))
        }
        None => {
            *walk = range;
            Ok(None)
        }
    }
}

/// Steps over the modules of a DBI stream.
#[derive(Clone, Copy)]
pub struct Modules<'a> {
    pub dbi: &'a [u8],
}

impl<'a> Steps<Range, PdbModule> for Modules<'a> {
    ghost steps = { λ s. Numbered pdb_number (StepsModules s.dbi.now) };

    fn step(&self, walk: &mut Range) -> std::result::Result<Option<PdbModule>, u32> {
        numbered_pdb(next_module(self.dbi, walk))
    }
}

/// The contributions in a range of the DBI stream.
fn contributions_at<'a>(dbi: &'a [u8], contributions: &Range) -> Result<SectionContributions<'a>>
    ensures { PdbReturns contributions_view result (contributions_at dbi.entry.now contributions.now) }
{
    SectionContributions::parse(part_of(dbi, contributions)?)
}

/// Both, whichever is refused first.
pub fn module_rows<'a>(
    dbi: &'a [u8],
    contributions: &Range,
    sections: &'a [u8],
) -> Result<(SectionHeaders<'a>, SectionContributions<'a>)>
    ensures { PdbReturns (λ x. (x.0.bytes.now, contributions_view x.1)) result
        (module_rows dbi.entry.now contributions.now sections.entry.now) }
{
    let sections = SectionHeaders::parse(sections)?;
    let rows = contributions_at(dbi, contributions)?;
    Ok((sections, rows))
}
