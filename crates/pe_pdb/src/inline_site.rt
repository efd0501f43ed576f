//! Records of inlined functions ([layout](https://llvm.org/docs/PDB/CodeViewSymbols.html)), in the symbols of a module within the
//! record of the procedure that they are in: which function, by its id in the stream of ids, and annotations that say which code
//! is of it (`InlineRows`).

ghost use Rattle.std.specs.Prelude.{◌≡◌};
ghost use Rattle.pe_pdb.specs.InlineSites.{annotations_start, inline_site_of, inline_site_view};
ghost use Rattle.pe_pdb.specs.Refusals.{PdbReturns};

use crate::error::{Result, require_bytes};
use pe_core::read_u32;

/// An inlined function.
pub const S_INLINESITE: u16 = 0x114D;

/// An inlined function with a number more, how often it is called.
pub const S_INLINESITE2: u16 = 0x115D;

/// The record of an inlined function. Offsets of records count from the start of the module's stream.
#[derive(Clone, Copy)]
pub struct InlineSite<'a> {
    /// The offset of the record that it is in: that of the procedure, or of another inlined function.
    pub parent: u32,
    /// The offset of the record that ends it.
    pub end: u32,
    /// Which function was inlined, an index of the stream of ids; for `InlineeLines` too.
    pub inlinee: u32,
    /// Which code is of it, for `InlineRows`.
    pub annotations: &'a [u8],
}

/// Where the annotations start.
fn annotations_start(kind: u16) -> usize
    ensures { result ≡ annotations_start kind }
{
    if kind == S_INLINESITE2 { 16 } else { 12 }
}

impl<'a> InlineSite<'a> {
    /// The inlined function of a record of kind `S_INLINESITE` or `S_INLINESITE2` with this content. Error: `Short` if there are
    /// fewer than 12 bytes, or 16.
    #[tactic(auto, unfolding(crate::specs::InlineSites::inline_site_of))]
    pub fn parse(kind: u16, content: &'a [u8]) -> Result<InlineSite<'a>>
        ensures { PdbReturns inline_site_view result (inline_site_of kind content.entry.now) }
    {
        let start = annotations_start(kind);
        require_bytes(content, 0, start)?;
        Ok(InlineSite {
            parent: read_u32(content, 0),
            end: read_u32(content, 4),
            inlinee: read_u32(content, 8),
            annotations: content.split_at(start).1,
        })
    }
}
