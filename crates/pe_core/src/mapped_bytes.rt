//! An image as one argument: its bytes, and the section map by which RVAs are found in them. RVAs count from the start of
//! the image as it is loaded; in the file each section's bytes stand elsewhere, as its
//! [section header](https://learn.microsoft.com/windows/win32/debug/pe-format#section-table-section-headers) says.

ghost use Rattle.std.specs.Prelude.{◌≡◌};
ghost use Rattle.pe_core.specs.SectionMap.{map_view};

use crate::options::ParseOptions;
use crate::section_index::SectionMap;
use crate::section_table::SectionTable;

/// The bytes of an image and its section map, which has the section headers, the file alignment, the options, and perhaps
/// an index. A caller makes one and passes it to each reader.
#[derive(Drop)]
pub struct MappedBytes<'a, 's> {
    /// The bytes of the whole file, or of the image as loaded, whose map has `resolve_rva` off.
    pub bytes: &'a [u8],
    /// What maps RVAs to offsets of `bytes`. That of `SectionIndex::map` does it fast under many sections.
    pub map: SectionMap<'s>,
}

impl<'a, 's> MappedBytes<'a, 's> {
    /// An image with these section headers, which are tested in turn for each RVA.
    pub fn new(
        bytes: &'a [u8],
        sections: &'s [SectionTable],
        file_alignment: u32,
        opts: &ParseOptions,
    ) -> MappedBytes<'a, 's>
        ensures bytes { result.bytes.now ≡ bytes.entry.now }
        ensures map { result.map ≡ map_view opts.now sections.entry.now file_alignment }
    {
        MappedBytes {
            bytes,
            map: SectionMap::new(sections, file_alignment, opts),
        }
    }
}
