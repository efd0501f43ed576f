//! The manifest, the resource with the id `RT_MANIFEST`: mostly XML that says what the program needs of Windows, such
//! as assemblies or an execution level. See <https://learn.microsoft.com/windows/win32/sbscs/application-manifests>.

ghost use Rattle.std.specs.Prelude.{◌≡◌, ◌≢◌, Err};
ghost use Rattle.std.specs.Option.{option_map};
ghost use Rattle.pe_core.specs.Refusals.{Memory, answer_by};
ghost use Rattle.pe_core.specs.SectionMap.{offset_in};
ghost use Rattle.pe_resource.specs.Contents.{map_of, IsContent};
ghost use Rattle.pe_resource.specs.ResourceEntries.{entries_left};
ghost use Rattle.pe_resource.specs.Resources.{manifest_view};

use crate::constants::RT_MANIFEST;
use crate::content::content;
use crate::directory::ResourceEntryIterator;
use pe_core::{MappedBytes, ParseOptions, Result, SectionTable};
use std::alloc::Allocator;

/// The manifest of an image: mostly XML in UTF-8.
#[derive(Clone, Copy, Debug, Default)]
pub struct ManifestData<'a> {
    /// The content of the resource. It is not checked or decoded.
    pub bytes: &'a [u8],
}

impl<'a> ManifestData<'a> {
    /// The manifest: the content of the first entry with the id `RT_MANIFEST`.
    pub(crate) fn of_entries(
        image: &MappedBytes<'a, '_>,
        bytes: &[u8],
        it: ResourceEntryIterator,
    ) -> Result<Option<ManifestData<'a>>>
        ensures { IsContent (offset_in image.now.map) image.now.bytes.now bytes.now
            (entries_left it.entry) 24 (answer_by (option_map manifest_view) result) }
    {
        let content = content(image, bytes, it, RT_MANIFEST)?;
        Ok(content.map(|bytes| ManifestData { bytes }))
    }

    /// Reads the manifest: the content of the first entry with the id `RT_MANIFEST`. `pe` is the whole file, `bytes`
    /// the data of the resource directory, `it` the entries of the first directory. `None` without such an entry, or if
    /// the walk over directories ends at a directory.
    ///
    /// Errors, in this order: of the walk, `Short` and `ResourceCycle`; of the data entry, `Short` if it is truncated,
    /// `Unmapped` if its RVA is not mapped, `ResourceBounds` if its content is not in the file. It asks for no memory:
    /// `_alloc` is not used.
    pub fn parse<A: Allocator + Drop>(
        _alloc: A,
        pe: &'a [u8],
        bytes: &'a [u8],
        it: ResourceEntryIterator<'a>,
        sections: &[SectionTable],
        file_alignment: u32,
        opts: &ParseOptions,
    ) -> Result<Option<ManifestData<'a>>>
        ensures manifest { IsContent
            (map_of opts.now sections.now file_alignment) pe.entry.now bytes.entry.now
            (entries_left it.entry) 24 (answer_by (option_map manifest_view) result) }
        ensures no_memory { answer_by (option_map manifest_view) result ≢ Err Memory }
    {
        let image = MappedBytes::new(pe, sections, file_alignment, opts);
        ManifestData::of_entries(&image, bytes, it)
    }
}
