//! The version information of an image, and its manifest. Resources are a tree of directories: type, name, language.
//! Version information is the content of the first resource of type 16 (`RT_VERSION`), the manifest that of type 24
//! (`RT_MANIFEST`).
//! https://learn.microsoft.com/windows/win32/menurc/vs-versioninfo

ghost use Rattle.std.specs.Prelude.{◌≡◌, IfOk, IfSome};
ghost use Rattle.pe_core.specs.Offsets.{IsWithin};
ghost use Rattle.pe_core.specs.Refusals.{Returns, answer_of};
ghost use Rattle.pe_resource.specs.Contents.{file_range};
ghost use Rattle.pe_resource.specs.Resources.{IsResourceEntry};
ghost use Rattle.calls_base.specs.Images.{map_of_image};
ghost use Rattle.calls_base.specs.Modes.{options_of};
ghost use Rattle.calls_directories.specs.Versions.{IsContentOf, content_at, entry_range, fixed_at, fixed_in, value_at, name_at, text_in};
ghost use Rattle.calls_base.specs.Views.{map_of, may_map};

use calls_base::image::{RESOURCE_TABLE, directory, is_absent};
use calls_base::ranges::Range;
use calls_base::results::options;
use calls_base::view::{View, sections_of};
use pe_core::{ByteRange, DataDirectory, MappedBytes, Result, SectionTable, require_bytes};
use pe_resource::{ResourceData, ResourceDataEntry, VersionName, VsFixedFileInfo};

/// The range of the content of a data entry, by the sections that may map its RVA.
pub fn range_by(
    view: &View,
    sections: &[SectionTable],
    entry: &ResourceDataEntry,
) -> Result<ByteRange>
    ensures range { Returns result (file_range view.now.bytes.now entry.now.size
        (map_of_image view.now.image.now sections.now entry.now.offset_to_data)) }
    ensures within { IfOk result (IsWithin view.now.bytes.now) }
{
    let opts = options(view.image.mode);
    let image = MappedBytes::new(view.bytes, sections, view.image.file_alignment, &opts);
    entry.content_range(&image)
}

/// The same, if there is a data entry.
fn entry_range(view: &View, entry: Option<ResourceDataEntry>) -> Result<Option<ByteRange>>
    ensures range { Returns result
        (entry_range view.now.bytes.now (map_of view.now) entry) }
    ensures within { IfOk result (λ c. IfSome c (IsWithin view.now.bytes.now)) }
{
    match entry {
        Some(entry) => {
            let sections = sections_of(view, entry.offset_to_data);
            Ok(Some(range_by(view, sections, &entry)?))
        }
        None => Ok(None),
    }
}

/// The data entry of the first resource with an id, if the directory of resources has one.
fn data_entry(view: &View, directory: DataDirectory, id: u16) -> Result<Option<ResourceDataEntry>>
    ensures { IsResourceEntry (options_of view.now.image.now.mode) view.now.bytes.now directory id
        (may_map view.now directory.virtual_address) view.now.image.now.file_alignment
        (answer_of result) }
{
    let sections = sections_of(view, directory.virtual_address);
    let alignment = view.image.file_alignment;
    let opts = options(view.image.mode);
    let image = MappedBytes::new(view.bytes, sections, alignment, &opts);
    ResourceData::data_entry(&image, directory, id)
}

/// The range of the content of the first resource with an id, if the image has resources and this one.
#[tactic(auto, using(crate::proofs::VersionContents::content_from_entry))]
pub fn content_of(view: &View, id: u16) -> Result<Option<ByteRange>>
    ensures content { IsContentOf view.now.bytes.now view.now.image.now (may_map view.now)
        view.now.image.now.mode id
        (answer_of result) }
    ensures within { IfOk result (λ c. IfSome c (IsWithin view.now.bytes.now)) }
{
    let directory = directory(view.image, RESOURCE_TABLE);
    if is_absent(directory) {
        return Ok(None);
    }
    let entry = data_entry(view, directory, id)?;
    entry_range(view, entry)
}

/// The fixed file information of the version information at a range.
fn fixed_at(bytes: &[u8], content: Option<ByteRange>) -> Result<Option<VsFixedFileInfo>>
    requires { IfSome content (IsWithin bytes.now) }
    ensures { answer_of result ≡ fixed_at bytes.now content }
{
    match content {
        None => Ok(None),
        Some(content) => VsFixedFileInfo::of_strings(content.of(bytes)),
    }
}

/// The range of the value of a name in the version information at a range.
fn value_at(bytes: &[u8], name: VersionName, content: Option<ByteRange>) -> Result<Option<Range>>
    requires { IfSome content (IsWithin bytes.now) }
    ensures { answer_of result ≡ value_at bytes.now name content }
{
    match content {
        None => Ok(None),
        Some(content) => match name.value_range(content.of(bytes))? {
            None => Ok(None),
            Some(value) => Ok(Some(Range {
                offset: content.offset as u64 + value.offset as u64,
                length: value.length as u64,
            })),
        },
    }
}

/// The name with a number, from 0 to 11.
pub fn name_at(number: u32) -> Option<VersionName>
    ensures { result ≡ name_at number }
{
    match number {
        0 => Some(VersionName::Comments),
        1 => Some(VersionName::CompanyName),
        2 => Some(VersionName::FileDescription),
        3 => Some(VersionName::FileVersion),
        4 => Some(VersionName::InternalName),
        5 => Some(VersionName::LegalCopyright),
        6 => Some(VersionName::LegalTrademarks),
        7 => Some(VersionName::OriginalFilename),
        8 => Some(VersionName::PrivateBuild),
        9 => Some(VersionName::ProductName),
        10 => Some(VersionName::ProductVersion),
        11 => Some(VersionName::SpecialBuild),
        _ => None,
    }
}

/// The content at a range that a caller passes. `Short` where it is not inside the bytes.
fn content_at(bytes: &[u8], content: &Range) -> Result<ByteRange>
    ensures content { answer_of result ≡ content_at bytes.now content.now }
    ensures within { IfOk result (IsWithin bytes.now) }
{
    let content = ByteRange {
        offset: content.offset as usize,
        length: content.length as usize,
    };
    require_bytes(bytes, content.offset, content.length)?;
    Ok(content)
}

pub fn fixed_in(bytes: &[u8], content: &Range) -> Result<Option<VsFixedFileInfo>>
    ensures { answer_of result ≡ fixed_in bytes.now content.now }
{
    let content = content_at(bytes, content)?;
    fixed_at(bytes, Some(content))
}

pub fn text_in(bytes: &[u8], content: &Range, name: Option<VersionName>) -> Result<Option<Range>>
    ensures { answer_of result ≡ text_in bytes.now content.now name }
{
    let Some(name) = name else {
        return Ok(None);
    };
    let content = content_at(bytes, content)?;
    value_at(bytes, name, Some(content))
}
