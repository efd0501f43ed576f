//! The records of symbols, in the symbol stream of a PDB and in the streams of its modules: of public symbols and procedures what
//! they say, of others the record alone.
//! https://llvm.org/docs/PDB/CodeViewSymbols.html

ghost use Rattle.std.specs.Prelude.{◌≡◌, ◌+◌, ◌<◌, ◌≤◌, ◌^◌, IfOk, IfSome, length};
ghost use Rattle.pe_pdb.specs.Procedures.{is_procedure, procedure_view};
ghost use Rattle.pe_pdb.specs.Publics.{public_view};
ghost use Rattle.pe_pdb.specs.Symbols.{symbol_view};
ghost use Rattle.calls_base.specs.Lists.{Numbered};
ghost use Rattle.calls_pdb.specs.PdbSymbols.{StepsPdbSymbols, first_symbol, procedure_reported, public_reported, record_reported, symbol_reported, symbol_step, symbol_walk, with_rva};
ghost use Rattle.calls_pdb.specs.Pdbs.{pdb_answer, pdb_number};

use crate::pdb::{number_of_pdb, numbered_pdb, part_of};
use calls_base::lists::Steps;
use calls_base::ranges::{NO_BYTES, Range};
use calls_base::results::{DONE, NOTHING};
use pe_pdb::{
    ProcedureSymbol, PublicSymbol, S_GPROC32, S_GPROC32_ID, S_LPROC32, S_LPROC32_ID, S_PUB32,
    SectionHeaders, SymbolRecord,
};

/// The size of what comes before the content of a record in bytes.
const SIZE_OF_PREFIX: u64 = 4;

/// How many bytes of a public symbol come before its name, from the start of its record.
const PUBLIC_NAME: u64 = 14;

/// The same of a procedure.
const PROCEDURE_NAME: u64 = 39;

/// A record of a symbol.
#[repr(C)]
#[derive(Clone, Copy)]
pub struct PdbSymbol {
    /// The record, from the number of its bytes on.
    pub range: Range,
    /// The name of a public symbol or procedure, without its final zero.
    pub name: Range,
    /// Its RVA.
    pub rva: u32,
    /// The size of a procedure's code in bytes.
    pub size: u32,
    /// The offset in its section.
    pub section_offset: u32,
    /// Of a public symbol bit 0: code; bit 1: a function; bit 2: managed code; bit 3: MSIL. Of a procedure `CV_PROCFLAGS`.
    pub flags: u32,
    /// The number of its section, from 1 on.
    pub section: u16,
    /// What the record says, `S_PUB32` and others.
    pub kind: u16,
    /// `DONE`, `NOTHING` without an RVA, or the number of an error of the record.
    pub result: u32,
}

/// A record of which nothing is known.
fn record_reported(offset: u64, record: &SymbolRecord<'_>, number: u32) -> PdbSymbol
    requires { offset < 2 ^ 63 }
    ensures { result ≡ record_reported offset (symbol_view record.now) number }
{
    PdbSymbol {
        range: Range {
            offset,
            length: SIZE_OF_PREFIX + record.content.len() as u64,
        },
        name: NO_BYTES,
        rva: 0,
        size: 0,
        section_offset: 0,
        flags: 0,
        section: 0,
        kind: record.kind,
        result: number,
    }
}

/// A symbol with the RVA that its section and offset have.
fn with_rva(symbol: PdbSymbol, sections: &SectionHeaders<'_>) -> PdbSymbol
    ensures { result ≡ with_rva sections.now.bytes.now symbol }
{
    match sections.rva_of(symbol.section, symbol.section_offset) {
        Some(rva) => PdbSymbol {
            rva,
            result: DONE,
            ..symbol
        },
        None => symbol,
    }
}

/// A public symbol as callers get it, without its RVA. `symbol` has its record alone.
fn public_reported(symbol: PdbSymbol, public: &PublicSymbol<'_>) -> PdbSymbol
    requires { symbol.range.offset < 2 ^ 63 }
    ensures { result ≡ public_reported symbol (public_view public.now) }
{
    PdbSymbol {
        name: Range {
            offset: symbol.range.offset + PUBLIC_NAME,
            length: public.name.len() as u64,
        },
        section_offset: public.offset,
        flags: public.flags,
        section: public.section,
        ..symbol
    }
}

/// The same of a procedure.
fn procedure_reported(symbol: PdbSymbol, procedure: &ProcedureSymbol<'_>) -> PdbSymbol
    requires { symbol.range.offset < 2 ^ 63 }
    ensures { result ≡ procedure_reported symbol (procedure_view procedure.now) }
{
    PdbSymbol {
        name: Range {
            offset: symbol.range.offset + PROCEDURE_NAME,
            length: procedure.name.len() as u64,
        },
        size: procedure.size,
        section_offset: procedure.offset,
        flags: u32::from(procedure.flags),
        section: procedure.section,
        ..symbol
    }
}

/// Whether a record is that of a procedure.
fn is_procedure(kind: u16) -> bool
    ensures { result ≡ is_procedure kind }
{
    matches!(kind, S_LPROC32 | S_GPROC32 | S_LPROC32_ID | S_GPROC32_ID)
}

/// The record of a symbol as callers get it, which starts at an offset.
#[tactic(auto, unfolding(crate::specs::PdbSymbols::symbol_reported))]
pub fn symbol_reported(
    offset: u64,
    record: &SymbolRecord<'_>,
    sections: &SectionHeaders<'_>,
) -> PdbSymbol
    requires { offset < 2 ^ 63 }
    ensures value { result ≡ symbol_reported sections.now.bytes.now offset (symbol_view record.now) }
    ensures range { result.range.length ≡ 4 + length record.now.content.now }
{
    let symbol = record_reported(offset, record, NOTHING);
    if record.kind == S_PUB32 {
        return match PublicSymbol::parse(record.content) {
            Ok(public) => with_rva(public_reported(symbol, &public), sections),
            Err(error) => record_reported(offset, record, number_of_pdb(&error)),
        };
    }
    if is_procedure(record.kind) {
        return match ProcedureSymbol::parse(record.content) {
            Ok(procedure) => with_rva(procedure_reported(symbol, &procedure), sections),
            Err(error) => record_reported(offset, record, number_of_pdb(&error)),
        };
    }
    symbol
}

/// The first record of some bytes, none where there are no bytes.
fn first_symbol(
    left: &[u8],
    offset: u64,
    sections: &SectionHeaders<'_>,
) -> pe_pdb::Result<Option<PdbSymbol>>
    requires { offset + length left.now < 2 ^ 63 }
    ensures value { pdb_answer result ≡ first_symbol sections.now.bytes.now offset left.now }
    ensures inside { IfOk result (λ o. IfSome o (λ x. x.range.length ≤ length left.now)) }
{
    if left.is_empty() {
        return Ok(None);
    }
    let record = SymbolRecord::parse(left, 0)?;
    Ok(Some(symbol_reported(offset, &record, sections)))
}

/// The next record of a walk.
fn next_symbol(bytes: &[u8], sections: &[u8], walk: &mut Range) -> pe_pdb::Result<Option<PdbSymbol>>
    ensures symbol { pdb_answer result ≡ symbol_step bytes.now sections.now walk.old }
    ensures walk { walk.new ≡ symbol_walk bytes.now sections.now walk.old }
{
    let range = *walk;
    // The walk is over, unless a step below succeeds.
    *walk = NO_BYTES;
    let sections = SectionHeaders::parse(sections)?;
    let left = part_of(bytes, &range)?;
    match first_symbol(left, range.offset, &sections)? {
        Some(symbol) => {
            *walk = Range {
                offset: range.offset + symbol.range.length,
                length: range.length - symbol.range.length,
            };
            Ok(Some(symbol))
        }
        None => {
            *walk = range;
            Ok(None)
        }
    }
}

/// Steps over the records of symbols.
#[derive(Clone, Copy)]
pub struct Symbols<'a> {
    pub bytes: &'a [u8],
    pub sections: &'a [u8],
}

impl<'a> Steps<Range, PdbSymbol> for Symbols<'a> {
    ghost steps = { λ s. Numbered pdb_number (StepsPdbSymbols s.bytes.now s.sections.now) };

    fn step(&self, walk: &mut Range) -> Result<Option<PdbSymbol>, u32> {
        numbered_pdb(next_symbol(self.bytes, self.sections, walk))
    }
}
