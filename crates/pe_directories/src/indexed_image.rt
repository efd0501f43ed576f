//! An image with an index of its sections, for calls that map many RVAs. The section map tests the sections in turn for each
//! RVA; an index maps each in a few steps, however many sections there are. A caller makes one, and passes it to every call.

ghost use Rattle.std.specs.Prelude.{◌≡◌, drop, IfOk, IfErr};
ghost use Rattle.pe_core.specs.declared.error.Error.TheVariants.{Memory};
ghost use Rattle.pe_directories.specs.ImageParts.{IsMapOf, image_view};
ghost use Rattle.pe_directories.specs.declared.error.DirectoryError.TheVariants.{Image};

use crate::error::Result;
use crate::image_bytes::ImageBytes;
use pe_core::{SectionIndex, SectionMap};
use std::alloc::Allocator;
use std::marker::Model;

/// An image with an index of its sections.
#[derive(Drop)]
pub struct IndexedImage<'a, A: Allocator> {
    image: ImageBytes<'a>,
    index: SectionIndex<'a, A>,
}

impl<'a, A: Allocator> Model for IndexedImage<'a, A> {
    ghost use Rattle.std.specs.Prelude.{◌≡◌};
    ghost use Rattle.pe_core.specs.SectionMap.{map_view};
    ghost use Rattle.pe_directories.specs.ImageParts.{ImageView, image_view};

    ghost Value = { ImageView };

    ghost view = { λ s. image_view s.image };

    ghost invariant = { λ s.
        s.index ≡ map_view s.image.opts s.image.sections.now s.image.file_alignment };
}

impl<'a, A: Allocator> IndexedImage<'a, A> {
    /// The image with an index of its sections, which takes n log n steps for n sections. Error: `Image` with `Memory`.
    pub fn new(alloc: A, image: &ImageBytes<'a>) -> Result<Self>
    where
        A: Copy,
        ensures made { IfOk result (λ indexed. indexed ≡ image_view image.now) }
        ensures refused { IfErr result (λ error. error ≡ Image (Memory record {})) }
    {
        let index = SectionIndex::new(alloc, image.sections, image.file_alignment, &image.opts)?;
        Ok(IndexedImage {
            image: *image,
            index,
        })
    }

    /// The bytes of the image.
    pub(crate) fn bytes(&self) -> &'a [u8]
        ensures { result.now ≡ self.now.bytes }
    {
        self.image.bytes
    }

    /// The bytes from an offset on, none past their end.
    pub(crate) fn from_offset(&self, offset: usize) -> &'a [u8]
        ensures { result.now ≡ drop offset self.now.bytes }
    {
        self.image.from_offset(offset)
    }

    /// Whether virtual addresses have 8 bytes, otherwise 4.
    pub(crate) fn is_64(&self) -> bool
        ensures { result ≡ self.now.is_64 }
    {
        self.image.is_64
    }

    /// The image without the index.
    pub(crate) fn image(&self) -> &ImageBytes<'a>
        ensures { image_view result.now ≡ self.now }
    {
        &self.image
    }

    /// The section map of the image, by the index.
    pub(crate) fn section_map(&self) -> SectionMap<'_>
        ensures { IsMapOf self.now result }
    {
        self.index.map()
    }
}
