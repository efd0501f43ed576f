//! The resources of an image as one value: the first directory, the version information and the manifest. Callers that
//! want another resource take its file range from `ResourceData::content_range`. Layout:
//! <https://learn.microsoft.com/windows/win32/debug/pe-format#the-rsrc-section>.

ghost use Rattle.std.specs.Prelude.{◌≡◌, ◌≢◌, ◌*◌, Err, Ok, IfOk, IfSome, length};
ghost use Rattle.std.specs.Option.{option_map};
ghost use Rattle.pe_core.specs.Options.{default_options};
ghost use Rattle.pe_core.specs.Offsets.{IsWithin, StandAt};
ghost use Rattle.pe_core.specs.Refusals.{Returns, ReturnsAs, Memory, answer_of, answer_by};
ghost use Rattle.pe_core.specs.SectionMap.{offset_in};
ghost use Rattle.pe_resource.specs.Contents.{file_range};
ghost use Rattle.pe_resource.specs.Directories.{count};
ghost use Rattle.pe_resource.specs.LeafPositions.{IsPlaced, first_position, leaf_start, leaves_at, tree_at, tree_view};
ghost use Rattle.pe_resource.specs.Leaves.{walk_view, resource_tree, tree_leaves};
ghost use Rattle.pe_resource.specs.ResourceEntries.{entries, entries_left};
ghost use Rattle.pe_resource.specs.Resources.{resource_view, first_entries_in, first_directory_view, first_directory, AreResources, IsResource, IsResourceEntry, IsResourceRange};

use crate::content::{ResourceDataEntry, content_range, data_entry, file_range};
use crate::directory::{ImageResourceDirectory, ResourceEntryIterator, SIZE_OF_DIRECTORY};
use crate::leaf_position::LeafPosition;
use crate::leaves::ResourceLeaves;
use crate::manifest::ManifestData;
use crate::version::VersionInfo;
use pe_core::{
    ByteRange, DataDirectory, Error, MappedBytes, ParseMode, ParseOptions, Reason, Result,
    SectionTable, slice_at,
};
use std::alloc::Allocator;

/// The resources of an image.
#[derive(Clone, Copy, Debug)]
pub struct ResourceData<'a> {
    /// The first directory, the root of the tree.
    pub image_resource_directory: ImageResourceDirectory,
    /// The version information, if there is one.
    pub version_info: Option<VersionInfo<'a>>,
    /// The manifest, if there is one.
    pub manifest_data: Option<ManifestData<'a>>,
    table: &'a [u8],
}

impl<'a> Default for ResourceData<'a> {
    ghost use Rattle.pe_resource.specs.Resources.{no_resources};

    ghost is_default = { λ d. resource_view d ≡ no_resources };

    /// Resources without entries.
    #[tactic(auto, using(crate::proofs::Entries::entries_empty))]
    fn default() -> ResourceData<'a> {
        ResourceData {
            image_resource_directory: ImageResourceDirectory::default(),
            version_info: None,
            manifest_data: None,
            table: &[],
        }
    }
}

/// The bytes of the entries of the first directory. `data` is the data of the resource directory, at file offset
/// `start`. `None` if the data is shorter than a directory.
#[tactic(auto, using(crate::proofs::Entries::entries_empty), unfolding(crate::specs::Resources::first_entries_in))]
fn first_entries<'a>(
    data: &'a [u8],
    start: usize,
    directory: &ImageResourceDirectory,
    mode: ParseMode,
) -> Result<Option<&'a [u8]>>
    ensures entries { ReturnsAs
        (option_map (λ s. s.now)) result (first_entries_in mode data.entry.now directory.now) }
    ensures place { IfOk result (λ t. IfSome t (λ s. StandAt data.entry.now 16 s.now)) }
    ensures whole { IfOk result (λ t. IfSome t (λ s. 8 * length (entries s.now) ≡ length s.now)) }
{
    let fits = SIZE_OF_DIRECTORY <= data.len();
    let size = directory.entries_size();
    match (slice_at(data, SIZE_OF_DIRECTORY, size), mode) {
        (Ok(table), _) => Ok(Some(table)),
        (Err(_), ParseMode::Strict) => {
            let end = (start as u64).saturating_add((SIZE_OF_DIRECTORY + size) as u64);
            Err(Error::Malformed(Reason::ResourceBounds(end)))
        }
        (Err(_), ParseMode::Permissive) if fits => Ok(Some(&[])),
        (Err(_), ParseMode::Permissive) => Ok(None),
    }
}

/// The first directory, the data of the resource directory and where it is in the file, and the bytes of the first directory's
/// entries in it.
#[derive(Clone, Copy)]
struct FirstDirectory<'a> {
    directory: ImageResourceDirectory,
    range: ByteRange,
    bytes: &'a [u8],
    table: &'a [u8],
}

impl<'a> FirstDirectory<'a> {
    /// Reads the first directory. `None` if the data is shorter than a directory.
    #[tactic(auto, unfolding(crate::specs::Resources::first_directory))]
    fn parse(
        image: &MappedBytes<'a, '_>,
        data_directory: DataDirectory,
    ) -> Result<Option<FirstDirectory<'a>>>
        ensures first { ReturnsAs (option_map first_directory_view) result
            (first_directory image.now.map.opts image.now.bytes.now data_directory
            image.now.map.sections image.now.map.alignment) }
        ensures place { IfOk result (λ d. IfSome d (IsPlaced image.now.bytes.now
            (file_range image.now.bytes.now data_directory.size
            (offset_in image.now.map data_directory.virtual_address)))) }
    {
        let directory = ImageResourceDirectory::of_image(image, data_directory)?;
        let range = file_range(image, data_directory.virtual_address, data_directory.size)?;
        let data = range.of(image.bytes);
        match first_entries(data, range.offset, &directory, image.map.opts().parse_mode)? {
            None => Ok(None),
            Some(table) => Ok(Some(FirstDirectory {
                directory,
                range,
                bytes: data,
                table,
            })),
        }
    }

    /// The entries of the first directory.
    fn entries(&self) -> ResourceEntryIterator<'a>
        ensures { entries_left result ≡ (first_directory_view self.now).entries }
    {
        let FirstDirectory { table, .. } = *self;
        ResourceEntryIterator::new(table)
    }

    /// The position before the first leaf of its tree.
    #[tactic(auto, using(crate::proofs::Entries::entries_empty))]
    fn position(&self) -> LeafPosition
        requires there { StandAt self.now.bytes.now 16 self.now.table.now }
        requires whole { 8 * length (entries self.now.table.now) ≡ length self.now.table.now }
        ensures leaves { leaves_at self.now.bytes.now result
            ≡ tree_leaves self.now.bytes.now (first_directory_view self.now).entries }
        ensures value { result ≡ first_position (first_directory_view self.now) }
    {
        LeafPosition {
            types: ByteRange {
                offset: SIZE_OF_DIRECTORY,
                length: self.table.len(),
            },
            ..LeafPosition::default()
        }
    }
}

impl<'a> ResourceData<'a> {
    /// Reads the resources with the default options. See `parse_with_opts`.
    pub fn parse<A: Allocator + Copy + Drop>(
        alloc: A,
        bytes: &'a [u8],
        data_directory: DataDirectory,
        sections: &[SectionTable],
        file_alignment: u32,
    ) -> Result<ResourceData<'a>>
        ensures resource { IsResource default_options bytes.entry.now
            data_directory sections.now file_alignment (answer_by resource_view result) }
        ensures no_memory { answer_by resource_view result ≢ Err Memory }
    {
        let opts = ParseOptions::default();
        ResourceData::parse_with_opts(
            alloc,
            bytes,
            data_directory,
            sections,
            file_alignment,
            &opts,
        )
    }

    /// Reads the resources at the RVA of `data_directory`. `bytes` is the whole file. The data is the `data_directory.size`
    /// bytes at that RVA. Errors, in this order:
    /// - of the first directory: `Unmapped` if the RVA is not mapped, `Short` if the directory is truncated;
    /// - `ResourceBounds` if the data is not in the file;
    /// - in strict mode `ResourceBounds` if the data is shorter than a directory. Permissive mode then returns the
    ///   default;
    /// - in strict mode `ResourceBounds` if the entries of the first directory are not in the data. Permissive mode
    ///   then reads no entries;
    /// - in both modes those of `VersionInfo::parse`, then those of `ManifestData::parse`.
    ///
    /// It asks for no memory: `_alloc` is not used.
    pub fn parse_with_opts<A: Allocator + Copy + Drop>(
        _alloc: A,
        bytes: &'a [u8],
        data_directory: DataDirectory,
        sections: &[SectionTable],
        file_alignment: u32,
        opts: &ParseOptions,
    ) -> Result<ResourceData<'a>>
        ensures resource { IsResource opts.now bytes.entry.now
            data_directory sections.now file_alignment (answer_by resource_view result) }
        ensures no_memory { answer_by resource_view result ≢ Err Memory }
    {
        let image = MappedBytes::new(bytes, sections, file_alignment, opts);
        ResourceData::of_directory(&image, data_directory)
    }

    /// Returns the file range of the content of the first resource with this id, such as `RT_VERSION` or `RT_MANIFEST`:
    /// the content that the walk over directories from the first entry with this id leads to. `image` is the whole file and
    /// its section map. `None` without such an entry, if the walk ends at a directory, and in permissive mode if the data is
    /// shorter than a directory.
    ///
    /// Errors, in this order: those of `parse_with_opts` for the first directory, its data and its entries; of the
    /// walk, `Short` and `ResourceCycle`; of the data entry, `Short` if it is truncated, `Unmapped` if its RVA is not
    /// mapped, `ResourceBounds` if its content is not in the file. Other resources cause no errors.
    pub fn content_range(
        image: &MappedBytes<'_, '_>,
        data_directory: DataDirectory,
        id: u16,
    ) -> Result<Option<ByteRange>>
        ensures range { IsResourceRange image.now.map.opts image.now.bytes.now data_directory id
            image.now.map.sections image.now.map.alignment (answer_of result) }
        ensures within { IfOk result (λ r. IfSome r (IsWithin image.now.bytes.now)) }
    {
        match FirstDirectory::parse(image, data_directory)? {
            None => Ok(None),
            Some(first) => content_range(image, first.bytes, first.entries(), id),
        }
    }

    /// Returns the data entry of the content that `content_range` returns the range of: what is read before its RVA is mapped.
    /// `image` is the whole file and its section map. A caller whose own index finds the sections that may map an RVA passes
    /// here a map of those for the RVA of the directory, and to `ResourceDataEntry::content_range` one of those for the
    /// content's. Errors: those of `content_range` but for the last two.
    pub fn data_entry(
        image: &MappedBytes<'_, '_>,
        data_directory: DataDirectory,
        id: u16,
    ) -> Result<Option<ResourceDataEntry>>
        ensures { IsResourceEntry image.now.map.opts image.now.bytes.now data_directory id
            image.now.map.sections image.now.map.alignment (answer_of result) }
    {
        match FirstDirectory::parse(image, data_directory)? {
            None => Ok(None),
            Some(first) => data_entry(first.bytes, first.entries(), id),
        }
    }

    /// Returns a walk over all leaves of the resource tree, in the order of the entries of its directories. `image` is the
    /// whole file and its section map. In permissive mode it has no items if the data is shorter than a directory. Errors:
    /// those of `parse_with_opts` for the first directory, its data and its entries, in this order.
    pub fn leaves(
        image: &MappedBytes<'a, '_>,
        data_directory: DataDirectory,
    ) -> Result<ResourceLeaves<'a>>
        ensures { ReturnsAs walk_view result (resource_tree image.now.map.opts image.now.bytes.now
            data_directory image.now.map.sections image.now.map.alignment) }
    {
        match FirstDirectory::parse(image, data_directory)? {
            None => Ok(ResourceLeaves::empty()),
            Some(first) => Ok(ResourceLeaves::of_table(first.bytes, first.table)),
        }
    }

    /// Returns where the data of the resource directory is in the file, and the position before the first leaf of the tree:
    /// what `leaves` walks over, in numbers. `image` is the whole file and its section map. `None` in permissive mode if the
    /// data is shorter than a directory. Errors: those of `leaves`.
    pub fn leaf_position(
        image: &MappedBytes<'_, '_>,
        data_directory: DataDirectory,
    ) -> Result<Option<(ByteRange, LeafPosition)>>
        ensures tree { ReturnsAs (option_map (tree_view image.now.bytes.now)) result (tree_at
            image.now.map.opts image.now.bytes.now data_directory
            image.now.map.sections image.now.map.alignment) }
        ensures place { IfOk result (λ x. IfSome x (λ x.
            file_range image.now.bytes.now data_directory.size
            (offset_in image.now.map data_directory.virtual_address) ≡ Ok x.0)) }
        ensures within { IfOk result (λ x. IfSome x (λ x. IsWithin image.now.bytes.now x.0)) }
        ensures value { Returns result (leaf_start
            image.now.map.opts image.now.bytes.now data_directory
            image.now.map.sections image.now.map.alignment) }
    {
        match FirstDirectory::parse(image, data_directory)? {
            None => Ok(None),
            Some(first) => Ok(Some((first.range, first.position()))),
        }
    }

    /// Reads the resources: `parse_with_opts`.
    fn of_directory(
        image: &MappedBytes<'a, '_>,
        data_directory: DataDirectory,
    ) -> Result<ResourceData<'a>>
        ensures { IsResource image.now.map.opts image.now.bytes.now data_directory
            image.now.map.sections image.now.map.alignment (answer_by resource_view result) }
    {
        match FirstDirectory::parse(image, data_directory)? {
            None => Ok(ResourceData::default()),
            Some(first) => ResourceData::of_first(image, first),
        }
    }

    /// Reads the version information and the manifest of a first directory.
    fn of_first(image: &MappedBytes<'a, '_>, first: FirstDirectory<'a>) -> Result<ResourceData<'a>>
        ensures { AreResources (offset_in image.now.map) image.now.bytes.now
            (first_directory_view first.entry) (answer_by resource_view result) }
    {
        let data = first.bytes;
        let it = first.entries();
        let version = VersionInfo::of_entries(image, data, it)?;
        let manifest = ManifestData::of_entries(image, data, it)?;
        Ok(ResourceData {
            image_resource_directory: first.directory,
            version_info: version,
            manifest_data: manifest,
            table: first.table,
        })
    }

    /// The number of entries that the first directory states. In permissive mode `entries` is empty if they are not in
    /// the data.
    pub fn count(&self) -> u16
        ensures { result ≡ count self.now.image_resource_directory }
    {
        self.image_resource_directory.count()
    }

    /// The entries of the first directory, as they were read.
    pub fn entries(&self) -> ResourceEntryIterator<'a>
        ensures { entries_left result ≡ (resource_view self.now).first_entries }
    {
        ResourceEntryIterator::new(self.table)
    }
}
