//! Base relocations ([layout](https://learn.microsoft.com/windows/win32/debug/pe-format#the-reloc-section-image-only)):
//! blocks, each with the RVA of a page, its size, and entries of 2 bytes for what to change if the image is not loaded
//! at its image base. A caller passes data directory 5, and reads the blocks itself.

ghost use Rattle.pe_core.specs.Refusals.{ReturnsAs};
ghost use Rattle.pe_core.specs.Options.{default_options};
ghost use Rattle.pe_core.specs.Relocations.{directory_bytes};

use crate::bytes::slice_at;
use crate::data_directories::DataDirectory;
use crate::error::Result;
use crate::options::ParseOptions;
use crate::section_index::mapped_offset;
use crate::section_table::SectionTable;

/// The base relocations of an image, as bytes. The blocks are not read further.
#[derive(Clone, Copy, Debug, PartialEq)]
pub struct RelocationData<'a> {
    /// The blocks, a range of the bytes that were passed.
    pub bytes: &'a [u8],
}

impl<'a> RelocationData<'a> {
    /// The base relocations, with the default options. Errors: those of `parse_with_opts`.
    pub fn parse(
        bytes: &'a [u8],
        directory: DataDirectory,
        sections: &[SectionTable],
        file_alignment: u32,
    ) -> Result<RelocationData<'a>>
        ensures { ReturnsAs (λ r. r.bytes.now) result (directory_bytes
            default_options bytes.entry.now directory sections.now file_alignment) }
    {
        RelocationData::parse_with_opts(
            bytes,
            directory,
            sections,
            file_alignment,
            &ParseOptions::default(),
        )
    }

    /// The base relocations at the RVA of `directory`, as many bytes as its size says. Errors, in order: `Unmapped`, `Short`.
    #[tactic(auto, unfolding(crate::specs::Relocations::directory_bytes))]
    pub fn parse_with_opts(
        bytes: &'a [u8],
        directory: DataDirectory,
        sections: &[SectionTable],
        file_alignment: u32,
        opts: &ParseOptions,
    ) -> Result<RelocationData<'a>>
        ensures { ReturnsAs (λ r. r.bytes.now) result
            (directory_bytes opts.now bytes.entry.now directory sections.now file_alignment) }
    {
        let offset = mapped_offset(directory.virtual_address, sections, file_alignment, opts)?;
        let bytes = slice_at(bytes, offset, directory.size as usize)?;
        Ok(RelocationData { bytes })
    }
}
