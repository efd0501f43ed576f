//! From an entry to its content: the walk ends at a leaf, which has the offset of a data entry of 16 bytes, and that
//! has the RVA and the size of the content. Layout:
//! <https://learn.microsoft.com/windows/win32/debug/pe-format#resource-data-entry>.

ghost use Rattle.std.specs.Prelude.{◌≡◌, ◌+◌, ◌≤◌, length, IfOk, IfSome};
ghost use Rattle.std.specs.Option.{option_map};
ghost use Rattle.pe_core.specs.Offsets.{IsWithin};
ghost use Rattle.pe_core.specs.Refusals.{Returns, answer_of, answer_by};
ghost use Rattle.pe_core.specs.SectionMap.{offset_in};
ghost use Rattle.pe_resource.specs.Contents.{IsLeaf, data_entry_at, data_entry_in, file_range, named_range, range_in, IsContentRange, IsContent, IsDataEntry};
ghost use Rattle.pe_resource.specs.ResourceEntries.{entries_left, with_id};

use crate::directory::ResourceEntryIterator;
use crate::entry::walk;
use pe_core::{ByteRange, Error, MappedBytes, Reason, Result, read_u32, require_bytes};

/// The size of a data entry in bytes.
pub(crate) const SIZE_OF_DATA_ENTRY: usize = 16;

/// A data entry, 16 bytes: where the content of a resource is. Each `ResourceLeaf` has one. Its fields are the four numbers
/// at `offset_to_data` of the entry of a language. `ResourceData::content_range` reads one and returns the file range.
#[derive(Clone, Copy, Debug, Default, PartialEq)]
pub struct ResourceDataEntry {
    /// The RVA of the content, in spite of the name.
    pub offset_to_data: u32,
    /// The size of the content in bytes.
    pub size: u32,
    /// The code page of texts in the content.
    pub code_page: u32,
    /// Reserved.
    pub reserved: u32,
}

impl ResourceDataEntry {
    /// Reads the data entry at `offset`. The caller has checked that its 16 bytes are there.
    #[tactic(auto, unfolding(crate::specs::Contents::data_entry_at))]
    pub(crate) fn at(bytes: &[u8], offset: usize) -> ResourceDataEntry
        requires { offset + 16 ≤ length bytes.now }
        ensures { result ≡ data_entry_at bytes.now offset }
    {
        ResourceDataEntry {
            offset_to_data: read_u32(bytes, offset),
            size: read_u32(bytes, offset + 4),
            code_page: read_u32(bytes, offset + 8),
            reserved: read_u32(bytes, offset + 12),
        }
    }

    /// Returns the file range of the content. `image` is the whole file and its section map. Errors, in order: `Unmapped` if its
    /// RVA is not mapped; `ResourceBounds` if it is not in the file.
    pub fn content_range(&self, image: &MappedBytes<'_, '_>) -> Result<ByteRange>
        ensures range { Returns result (file_range image.now.bytes.now self.now.size
            (offset_in image.now.map self.now.offset_to_data)) }
        ensures within { IfOk result (IsWithin image.now.bytes.now) }
    {
        let ResourceDataEntry {
            offset_to_data,
            size,
            ..
        } = *self;
        file_range(image, offset_to_data, size)
    }
}

/// The offset of the data entry that the first entry with this id leads to. `None` without such an entry, or if the
/// walk ends at a directory.
#[tactic(auto, unfolding(crate::specs::ResourceEntries::entries))]
fn leaf(bytes: &[u8], it: ResourceEntryIterator, id: u16) -> Result<Option<u32>>
    ensures { IsLeaf bytes.now (with_id id (entries_left it.entry)) (answer_of result) }
{
    match it.first_with_id(id) {
        None => Ok(None),
        Some(entry) => {
            let last = walk(entry, bytes, |next| next.data_is_directory())?;
            Ok(last.offset_to_data())
        }
    }
}

/// The data entry at an offset, if there is one. `Short` where it is truncated.
fn data_entry_in(bytes: &[u8], offset: Option<u32>) -> Result<Option<ResourceDataEntry>>
    ensures { Returns result (data_entry_in bytes.now offset) }
{
    let Some(offset) = offset else {
        return Ok(None);
    };
    let offset = offset as usize;
    require_bytes(bytes, offset, SIZE_OF_DATA_ENTRY)?;
    Ok(Some(ResourceDataEntry::at(bytes, offset)))
}

/// The data entry that the first entry with this id leads to.
pub(crate) fn data_entry(
    bytes: &[u8],
    it: ResourceEntryIterator,
    id: u16,
) -> Result<Option<ResourceDataEntry>>
    ensures { IsDataEntry bytes.now (entries_left it.entry) id (answer_of result) }
{
    data_entry_in(bytes, leaf(bytes, it, id)?)
}

/// The file range of `size` bytes at an RVA. `Unmapped`, or `ResourceBounds` if the bytes are not in the file.
pub(crate) fn file_range(image: &MappedBytes<'_, '_>, address: u32, size: u32) -> Result<ByteRange>
    ensures range { Returns result
        (file_range image.now.bytes.now size (offset_in image.now.map address)) }
    ensures within { IfOk result (IsWithin image.now.bytes.now) }
{
    let offset = image.map.offset_of(address)?;
    let length = size as usize;
    if image.bytes.len() < length || image.bytes.len() - length < offset {
        let end = (offset as u64).saturating_add(length as u64);
        return Err(Error::Malformed(Reason::ResourceBounds(end)));
    }
    Ok(ByteRange { offset, length })
}

/// The file range of the content of the data entry at `offset`.
#[tactic(auto, unfolding(crate::specs::Contents::named_range))]
fn named_range(image: &MappedBytes<'_, '_>, bytes: &[u8], offset: u32) -> Result<ByteRange>
    ensures range { Returns result
        (named_range (offset_in image.now.map) image.now.bytes.now bytes.now offset) }
    ensures within { IfOk result (IsWithin image.now.bytes.now) }
{
    let offset = offset as usize;
    require_bytes(bytes, offset, SIZE_OF_DATA_ENTRY)?;
    let entry = ResourceDataEntry::at(bytes, offset);
    file_range(image, entry.offset_to_data, entry.size)
}

/// The file range of the content of the first entry with this id.
pub(crate) fn content_range(
    image: &MappedBytes<'_, '_>,
    bytes: &[u8],
    it: ResourceEntryIterator,
    id: u16,
) -> Result<Option<ByteRange>>
    ensures range { IsContentRange (offset_in image.now.map) image.now.bytes.now bytes.now
        (entries_left it.entry) id (answer_of result) }
    ensures within { IfOk result (λ r. IfSome r (IsWithin image.now.bytes.now)) }
{
    match leaf(bytes, it, id)? {
        None => Ok(None),
        Some(offset) => Ok(Some(named_range(image, bytes, offset)?)),
    }
}

/// The content of the first entry with this id.
pub(crate) fn content<'a>(
    image: &MappedBytes<'a, '_>,
    bytes: &[u8],
    it: ResourceEntryIterator,
    id: u16,
) -> Result<Option<&'a [u8]>>
    ensures { IsContent (offset_in image.now.map) image.now.bytes.now bytes.now
        (entries_left it.entry) id (answer_by (option_map (λ s. s.now)) result) }
{
    match content_range(image, bytes, it, id)? {
        None => Ok(None),
        Some(range) => Ok(Some(range.of(image.bytes))),
    }
}
