//! [Public symbols](https://llvm.org/docs/PDB/PublicStream.html) (`S_PUB32`): names that objects see of one another, as linkers
//! have them. The linker writes them even where an object has no debug information; it has no functions that only one object
//! sees.

ghost use Rattle.std.specs.Prelude.{◌≡◌};
ghost use Rattle.pe_pdb.specs.Publics.{public_function_rva, public_of, public_view};
ghost use Rattle.pe_pdb.specs.Refusals.{PdbReturns};
ghost use Rattle.pe_pdb.specs.Symbols.{symbol_view};

use crate::error::{PdbError, Result, require_bytes};
use crate::record_text::record_text;
use crate::sections::SectionHeaders;
use crate::symbol::SymbolRecord;
use pe_core::{read_u16, read_u32};

/// The kind of the records of public symbols.
pub const S_PUB32: u16 = 0x110E;

/// How many bytes of its content come before the name.
const NAME: usize = 10;

/// A public symbol.
#[derive(Clone, Copy)]
pub struct PublicSymbol<'a> {
    /// Bit 0: code; bit 1: a function; bit 2: managed code; bit 3: MSIL.
    pub flags: u32,
    /// The offset in its section.
    pub offset: u32,
    /// The number of its section, from 1 on.
    pub section: u16,
    /// Its name, as linkers have it: those of C++ and Rust mangled.
    pub name: &'a str,
}

impl<'a> PublicSymbol<'a> {
    /// The symbol of a record with this content. Errors, in order: `Short` if there are fewer than 10 bytes; `Name`.
    #[tactic(auto, unfolding(crate::specs::Publics::public_of))]
    pub fn parse(content: &'a [u8]) -> Result<PublicSymbol<'a>>
        ensures { PdbReturns public_view result (public_of content.entry.now) }
    {
        require_bytes(content, 0, NAME)?;
        match record_text(content, NAME) {
            Some(name) => Ok(PublicSymbol {
                flags: read_u32(content, 0),
                offset: read_u32(content, 4),
                section: read_u16(content, 8),
                name,
            }),
            None => Err(PdbError::Name(NAME)),
        }
    }
}

/// The RVA of a public function. `None` of other records, of one that is too short, and where it is in no section.
#[tactic(auto, unfolding(crate::specs::Publics::public_function_rva))]
#[inline(always)]
pub(crate) fn public_function_rva(
    sections: &SectionHeaders<'_>,
    record: &SymbolRecord<'_>,
) -> Option<u32>
    ensures { result ≡ public_function_rva sections.now.bytes.now (symbol_view record.now) }
{
    let content = record.content;
    if record.kind != S_PUB32 || content.len() < NAME {
        return None;
    }
    // Bit 1 of the flags.
    if read_u32(content, 0) / 2 % 2 == 0 {
        return None;
    }
    sections.rva_of(read_u16(content, 8), read_u32(content, 4))
}
