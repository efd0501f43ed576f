//! An image as calls take it: its bytes, its headers, which say how it is read, its section headers, and an index of these where
//! the caller has made one.

ghost use Rattle.std.specs.Prelude.{◌≡◌};
ghost use Rattle.pe_lookup.specs.SectionIndexes as indexes;
ghost use Rattle.calls_base.specs.Views.{map_of};

use crate::image::{Image, offset_of};
use crate::results::options;
use pe_core::{RangeEntry, Result, RvaMap, SectionTable, find_offset, mapped_offset};
use pe_lookup::sections_by;

/// What `pe_c_image` and `pe_c_sections` returned of the bytes, or what a caller made in their place.
#[repr(C)]
#[derive(Clone, Copy)]
pub struct View<'a> {
    /// A file, or an image as loaded.
    pub bytes: &'a [u8],
    pub image: &'a Image,
    pub sections: &'a [SectionTable],
    /// What `pe_c_index` wrote for these sections; no entries without an index.
    pub index: &'a [RangeEntry],
}

/// The sections that may map an RVA: one at most, where the view has an index.
pub fn sections_of<'a>(view: &View<'a>, rva: u32) -> &'a [SectionTable]
    ensures { result.now ≡ indexes.sections_by view.now.sections.now view.now.index.now rva }
{
    sections_by(view.sections, view.index, u64::from(rva))
}

/// The offset of an RVA.
pub fn map_by(view: &View, rva: u32) -> Option<usize>
    ensures { result ≡ map_of view.now rva }
{
    offset_of(rva, view.image, sections_of(view, rva))
}

impl<'a> RvaMap for View<'a> {
    ghost offset = { map_of };

    fn file_offset(&self, rva: u32) -> Result<usize> {
        let image = self.image;
        mapped_offset(
            rva,
            sections_of(self, rva),
            image.file_alignment,
            &options(image.mode),
        )
    }
}

/// The same of an RVA that may have more than 32 bits: a virtual address less the image base.
pub fn map_u64(view: &View, rva: u64) -> Option<usize>
    ensures { result ≡ map_of view.now rva }
{
    let image = view.image;
    let sections = sections_by(view.sections, view.index, rva);
    find_offset(
        rva as usize,
        sections,
        image.file_alignment,
        &options(image.mode),
    )
}
