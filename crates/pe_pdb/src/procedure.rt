//! Procedures ([layout](https://llvm.org/docs/PDB/CodeViewSymbols.html)), which the stream of a module has: functions that have
//! code in it, with how many bytes that is, also those that no other object sees. Names are as in the source.

ghost use Rattle.std.specs.Prelude.{◌≡◌};
ghost use Rattle.pe_pdb.specs.Procedures.{code_size_of, is_procedure, procedure_of, procedure_rva, procedure_view};
ghost use Rattle.pe_pdb.specs.Refusals.{PdbReturns};
ghost use Rattle.pe_pdb.specs.Symbols.{symbol_view};

use crate::error::{PdbError, Result, require_bytes};
use crate::record_text::record_text;
use crate::sections::SectionHeaders;
use crate::symbol::SymbolRecord;
use pe_core::{read_u8, read_u16, read_u32};

/// A procedure that only its own object sees.
pub const S_LPROC32: u16 = 0x110F;

/// A procedure that other objects see.
pub const S_GPROC32: u16 = 0x1110;

/// The same in objects: its type is an index of the stream of ids.
pub const S_LPROC32_ID: u16 = 0x1146;

/// The same in objects: its type is an index of the stream of ids.
pub const S_GPROC32_ID: u16 = 0x1147;

/// How many bytes of its content come before the name.
const NAME: usize = 35;

/// A procedure. Offsets of records count from the start of the module's stream.
#[derive(Clone, Copy)]
pub struct ProcedureSymbol<'a> {
    /// The offset of the record of the scope that it is in, or 0.
    pub parent: u32,
    /// The offset of the record that ends it.
    pub end: u32,
    /// The offset of the next record of its scope, or 0.
    pub next: u32,
    /// The size of its code in bytes.
    pub size: u32,
    /// Where its prologue has ended, from its start.
    pub debug_start: u32,
    /// Where its epilogue starts, from its start.
    pub debug_end: u32,
    /// Its type, an index.
    pub type_index: u32,
    /// The offset in its section.
    pub offset: u32,
    /// The number of its section, from 1 on.
    pub section: u16,
    /// `CV_PROCFLAGS` of cvinfo.h.
    pub flags: u8,
    /// Its name, as in the source.
    pub name: &'a str,
}

impl<'a> ProcedureSymbol<'a> {
    /// The procedure of a record with this content. Errors, in order: `Short` if there are fewer than 35 bytes; `Name`.
    #[tactic(auto, unfolding(crate::specs::Procedures::procedure_of))]
    pub fn parse(content: &'a [u8]) -> Result<ProcedureSymbol<'a>>
        ensures { PdbReturns procedure_view result (procedure_of content.entry.now) }
    {
        require_bytes(content, 0, NAME)?;
        match record_text(content, NAME) {
            Some(name) => Ok(ProcedureSymbol {
                parent: read_u32(content, 0),
                end: read_u32(content, 4),
                next: read_u32(content, 8),
                size: read_u32(content, 12),
                debug_start: read_u32(content, 16),
                debug_end: read_u32(content, 20),
                type_index: read_u32(content, 24),
                offset: read_u32(content, 28),
                section: read_u16(content, 32),
                flags: read_u8(content, 34),
                name,
            }),
            None => Err(PdbError::Name(NAME)),
        }
    }
}

/// Whether a record is that of a procedure.
pub(crate) fn is_procedure(kind: u16) -> bool
    ensures { result ≡ is_procedure kind }
{
    matches!(kind, S_LPROC32 | S_GPROC32 | S_LPROC32_ID | S_GPROC32_ID)
}

/// The RVA of a procedure that has code. `None` of other records, of one that is too short, and where it is in no section.
#[tactic(auto, unfolding(crate::specs::Procedures::procedure_rva))]
#[inline(always)]
pub(crate) fn procedure_rva(sections: &SectionHeaders<'_>, record: &SymbolRecord<'_>) -> Option<u32>
    ensures { result ≡ procedure_rva sections.now.bytes.now (symbol_view record.now) }
{
    let content = record.content;
    if !is_procedure(record.kind) || content.len() < NAME || read_u32(content, 12) == 0 {
        return None;
    }
    sections.rva_of(read_u16(content, 32), read_u32(content, 28))
}

/// The size of the code of a procedure in bytes. 0 of a record that is too short.
pub(crate) fn code_size_of(record: &SymbolRecord<'_>) -> u32
    ensures { result ≡ code_size_of (symbol_view record.now) }
{
    if record.content.len() < NAME {
        return 0;
    }
    read_u32(record.content, 12)
}
