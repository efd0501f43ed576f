//! TE images, as firmware has them: PE images whose headers were replaced by a TE header of 40 bytes. RVAs and file
//! offsets in the file still count from the start of the PE image. `TE::parse` subtracts the bytes that the file is
//! shorter.

ghost use Rattle.pe_core.specs.Refusals.{ReturnsUnlessMemoryAfter};

use pe_core::{ParseOptions, Result, SectionTable, TeHeader};
use pe_records::DebugData;
use std::alloc::{Allocator, Global};

/// A TE image: an image whose headers were replaced by a TE header of 40 bytes.
#[derive(Debug, Drop)]
pub struct TE<'a, A: Allocator + Copy + Drop = Global> {
    /// The TE header. Its RVAs are reduced by `rva_offset`.
    pub header: TeHeader,
    /// The section headers. Their RVAs and raw pointers are reduced by `rva_offset`.
    pub sections: Vec<SectionTable, A>,
    /// The debug data. The RVAs and raw pointers of its entries are reduced by `rva_offset`. Empty without a debug
    /// directory.
    pub debug_data: DebugData<'a>,
    /// How many bytes the file is shorter than the PE image: the stripped bytes less the 40 of the TE header.
    pub rva_offset: usize,
}

impl<'a, A: Allocator + Copy + Drop> TE<'a, A> {
    ghost use Rattle.pe_image.specs.Te.{te_view, te_sections, te_of};

    /// Reads the TE image in `bytes`, a whole file. Errors, in this order: those of the header, `Short`, `BadMagic`,
    /// `TeSize`; `Short` if the section headers are truncated; `Memory`; those of the debug data. The debug data is
    /// read with `ParseOptions::te`: in strict mode, and with RVAs as file offsets.
    #[tactic(auto, using(crate::proofs::NoMemory::te_header_owes_nothing), unfolding(crate::specs::Te::te_of, pe_core::specs::TeImages::te_sections_of))]
    pub fn parse(alloc: A, bytes: &'a [u8]) -> Result<TE<'a, A>>
        ensures { ReturnsUnlessMemoryAfter
            (te_sections bytes.entry.now) te_view result (te_of bytes.entry.now) }
    {
        let header = TeHeader::parse(bytes)?;
        let sections = header.sections(alloc, bytes)?;
        let rva_offset = header.rva_offset()?;
        let debug_data = DebugData::parse_with_opts_and_fixup(
            bytes,
            header.debug_dir,
            &sections,
            0,
            &ParseOptions::te(),
            rva_offset,
        )?;
        Ok(TE {
            header,
            sections,
            debug_data,
            rva_offset: rva_offset as usize,
        })
    }
}
