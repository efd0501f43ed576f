//! Resource directories: a header of 16 bytes with two counts, followed by entries of 8 bytes, first those with a name
//! and then those with an id. Layout:
//! <https://learn.microsoft.com/windows/win32/debug/pe-format#resource-directory-table>. A caller iterates over the
//! entries, or looks one up by its id.

ghost use Rattle.std.specs.Prelude.{◌≡◌, ◌+◌, ◌*◌, ◌≤◌, length};
ghost use Rattle.pe_core.specs.Options.{default_options};
ghost use Rattle.pe_core.specs.Refusals.{Returns, ReturnsAs};
ghost use Rattle.pe_resource.specs.Directories.{directory_of, directory_at, count, entries_at};
ghost use Rattle.pe_resource.specs.ResourceEntries.{entries_left};

use crate::constants::RESOURCE_ENTRY_SIZE;
use crate::entry::ResourceEntry;
use pe_core::{
    DataDirectory, MappedBytes, ParseOptions, Result, SectionTable, WholeEntries, read_u16,
    read_u32, require_bytes, slice_at,
};

/// The size of a directory without its entries, in bytes.
pub(crate) const SIZE_OF_DIRECTORY: usize = 16;

/// A resource directory, 16 bytes. Its entries follow it.
#[derive(Clone, Copy, Debug, Default, PartialEq)]
pub struct ImageResourceDirectory {
    /// Reserved flags.
    pub characteristics: u32,
    /// When the resources were made, in seconds since the start of 1970.
    pub time_date_stamp: u32,
    /// The major version number, set by the user.
    pub major_version: u16,
    /// The minor version number, set by the user.
    pub minor_version: u16,
    /// How many entries have a name. They come first.
    pub number_of_named_entries: u16,
    /// How many entries have an id. They follow the entries with a name.
    pub number_of_id_entries: u16,
}

impl ImageResourceDirectory {
    /// Reads the directory at `offset`. The caller has checked that its 16 bytes are there.
    #[tactic(auto, unfolding(crate::specs::Directories::directory_of))]
    pub fn at(bytes: &[u8], offset: usize) -> ImageResourceDirectory
        requires { offset + 16 ≤ length bytes.now }
        ensures { result ≡ directory_of bytes.now offset }
    {
        ImageResourceDirectory {
            characteristics: read_u32(bytes, offset),
            time_date_stamp: read_u32(bytes, offset + 4),
            major_version: read_u16(bytes, offset + 8),
            minor_version: read_u16(bytes, offset + 10),
            number_of_named_entries: read_u16(bytes, offset + 12),
            number_of_id_entries: read_u16(bytes, offset + 14),
        }
    }

    /// Reads the first resource directory with the default options. See `parse_with_opts`.
    pub fn parse(
        bytes: &[u8],
        data_directory: DataDirectory,
        sections: &[SectionTable],
        file_alignment: u32,
    ) -> Result<ImageResourceDirectory>
        ensures { Returns result
            (directory_at default_options bytes.now data_directory sections.now file_alignment) }
    {
        let opts = ParseOptions::default();
        ImageResourceDirectory::parse_with_opts(
            bytes,
            data_directory,
            sections,
            file_alignment,
            &opts,
        )
    }

    /// Reads the first resource directory: that at the RVA of `data_directory`. `bytes` is the whole file.
    /// Errors, in this order: `Unmapped` if the RVA is not mapped; `Short` if the 16 bytes are truncated.
    pub fn parse_with_opts(
        bytes: &[u8],
        data_directory: DataDirectory,
        sections: &[SectionTable],
        file_alignment: u32,
        opts: &ParseOptions,
    ) -> Result<ImageResourceDirectory>
        ensures { Returns result
            (directory_at opts.now bytes.now data_directory sections.now file_alignment) }
    {
        let image = MappedBytes::new(bytes, sections, file_alignment, opts);
        ImageResourceDirectory::of_image(&image, data_directory)
    }

    /// Reads the first resource directory of an image: `parse_with_opts`.
    #[tactic(auto, unfolding(crate::specs::Directories::directory_at))]
    pub(crate) fn of_image(
        image: &MappedBytes<'_, '_>,
        data_directory: DataDirectory,
    ) -> Result<ImageResourceDirectory>
        ensures { Returns result (directory_at image.now.map.opts image.now.bytes.now
            data_directory image.now.map.sections image.now.map.alignment) }
    {
        let offset = image.map.offset_of(data_directory.virtual_address)?;
        require_bytes(image.bytes, offset, SIZE_OF_DIRECTORY)?;
        Ok(ImageResourceDirectory::at(image.bytes, offset))
    }

    /// The number of entries: the sum of both counts, at most 65,535.
    pub fn count(&self) -> u16
        ensures { result ≡ count self.now }
    {
        self.number_of_named_entries
            .saturating_add(self.number_of_id_entries)
    }

    /// The size of all entries in bytes.
    pub fn entries_size(&self) -> usize
        ensures { result ≡ 8 * count self.now }
    {
        RESOURCE_ENTRY_SIZE * usize::from(self.count())
    }

    /// Returns an iterator over the entries, which start at `offset`, counted from the start of `bytes`. `Short` if
    /// they are truncated. All entries are one read, so an offset past the end of `bytes` is `Short` even without
    /// entries.
    pub fn next_iter<'a>(&self, offset: usize, bytes: &'a [u8]) -> Result<ResourceEntryIterator<'a>>
        ensures { ReturnsAs entries_left result (entries_at bytes.entry.now offset self.now) }
    {
        let table = slice_at(bytes, offset, self.entries_size())?;
        Ok(ResourceEntryIterator::new(table))
    }
}

/// An iterator over the entries of a resource directory. No item is an error.
pub type ResourceEntryIterator<'a> = WholeEntries<'a, Result<ResourceEntry>>;
