//! The section headers of the image, a stream of a PDB (`DEBUG_SECTION_HEADERS`). Symbols say where they are by the number of a
//! section, from 1 on, and an offset in it.

ghost use Rattle.std.specs.Prelude.{◌≡◌, ◌*◌, ◌%◌, ◌/◌, length};
ghost use Rattle.pe_pdb.specs.Refusals.{PdbReturns};
ghost use Rattle.pe_pdb.specs.SectionHeaders.{headers_of, rva_of};

use crate::error::{PdbError, Result};
use pe_core::SectionTable;

/// The size of a section header in bytes.
const SIZE_OF_SECTION_HEADER: usize = 40;

/// The section headers of the image, 40 bytes each.
#[derive(Clone, Copy)]
pub struct SectionHeaders<'a> {
    bytes: &'a [u8],
}

impl<'a> SectionHeaders<'a> {
    /// The section headers of a stream that has these bytes. Error: `SectionHeaders` if they are not a multiple of 40.
    pub fn parse(bytes: &'a [u8]) -> Result<SectionHeaders<'a>>
        ensures { PdbReturns (λ s. s.bytes.now) result (headers_of bytes.entry.now) }
    {
        if bytes.len() % SIZE_OF_SECTION_HEADER != 0 {
            return Err(PdbError::SectionHeaders(bytes.len()));
        }
        Ok(SectionHeaders { bytes })
    }

    /// How many there are.
    pub fn len(&self) -> usize
        ensures { result ≡ length self.now.bytes.now / 40 }
    {
        self.bytes.len() / SIZE_OF_SECTION_HEADER
    }

    /// The RVA at an offset in a section, by the number of the section. `None` where there is no such section, and past 2^32. The
    /// offset may be past the end of the section.
    #[tactic(auto, unfolding(crate::specs::SectionHeaders::rva_of))]
    pub fn rva_of(&self, section: u16, offset: u32) -> Option<u32>
        ensures { result ≡ rva_of self.now.bytes.now section offset }
    {
        let number = usize::from(section);
        if number == 0 || self.len() < number {
            return None;
        }
        let header = SectionTable::at(self.bytes, SIZE_OF_SECTION_HEADER * (number - 1));
        header.virtual_address.checked_add(offset)
    }
}
