//! Version information, the resource with the id `RT_VERSION`: the fixed file information with version numbers and
//! flags, and strings that describe the file. Layout:
//! <https://learn.microsoft.com/windows/win32/menurc/vs-versioninfo>. Callers get it from `ResourceData`, and then the
//! texts from the getters of `StringFileInfo`.

ghost use Rattle.std.specs.Prelude.{All, Ok, map, slice_index_or, [], ◌<◌, ◌≡◌, ◌≢◌, ◌+◌, ◌==◌, ◌≤◌, length, Err, IfOk, IfSome, string_bytes};
ghost use Rattle.std.specs.Option.{option_map};
ghost use Rattle.pe_core.specs.Offsets.{IsWithin};
ghost use Rattle.pe_core.specs.Refusals.{Returns, ReturnsAs, Memory, answer_by};
ghost use Rattle.pe_core.specs.SectionMap.{offset_in};
ghost use Rattle.pe_resource.specs.Contents.{map_of, content_of, version_of_content, IsVersion};
ghost use Rattle.pe_resource.specs.ResourceEntries.{entries_left};
ghost use Rattle.pe_resource.specs.VersionFields.{version_of_halves, high_half, low_half, version_text, fixed_info_at, fixed_info_in, fixed_info_of, version_key, file_strings, file_strings_view, ReturnsText, version_view, version_in, value_range_in};
ghost use Rattle.pe_resource.specs.VersionStrings.{strings, read, value_of, value_ranges, IsPlain};

use crate::constants::{RT_VERSION, VS_FFI_SIGNATURE, VS_VERSION_INFO_KEY};
use crate::content::content;
use crate::directory::ResourceEntryIterator;
use crate::string::{text_of, value_ranges};
use pe_core::{ByteRange, Error, MappedBytes, ParseOptions, Result, SectionTable, read_u32};
use std::alloc::{AllocError, Allocator};

/// The size of the fixed file information in bytes.
pub(crate) const SIZE_OF_FIXED_INFO: usize = 52;

/// The keys of the values that are read: of the fixed file information, and the twelve names in their order.
const KEYS: [&str; 13] = [
    VS_VERSION_INFO_KEY,
    "Comments",
    "CompanyName",
    "FileDescription",
    "FileVersion",
    "InternalName",
    "LegalCopyright",
    "LegalTrademarks",
    "OriginalFilename",
    "PrivateBuild",
    "ProductName",
    "ProductVersion",
    "SpecialBuild",
];

/// The four numbers in decimal digits, joined by dots.
fn dotted<A: Allocator + Copy + Drop>(
    alloc: A,
    major: u16,
    minor: u16,
    build: u16,
    revision: u16,
) -> std::result::Result<String<A>, AllocError>
    ensures { IfOk result (λ s. string_bytes s ≡ version_text record {
      major = major;
      minor = minor;
      build = build;
      revision = revision;
    }) }
{
    format!(in alloc; "{major}.{minor}.{build}.{revision}")
}

/// A version number in four parts, such as 10.0.19041.1. Versions are ordered by the first part that differs.
#[derive(Clone, Copy, Default, PartialEq, Eq, PartialOrd, Ord)]
pub struct VersionField {
    /// The high half of the first number, `ms`.
    pub major: u16,
    /// The low half of the first number, `ms`.
    pub minor: u16,
    /// The high half of the second number, `ls`.
    pub build: u16,
    /// The low half of the second number, `ls`.
    pub revision: u16,
}

impl VersionField {
    /// The version from two numbers: `ms` contains major and minor, `ls` build and revision, in the high and the low
    /// half.
    pub fn from_ms_ls(ms: u32, ls: u32) -> VersionField
        ensures { result ≡ version_of_halves ms ls }
    {
        VersionField {
            major: (ms >> 16) as u16,
            minor: (ms & 0xFFFF) as u16,
            build: (ls >> 16) as u16,
            revision: (ls & 0xFFFF) as u16,
        }
    }

    /// The first number: major in the high half, minor in the low half.
    pub fn to_ms(&self) -> u32
        ensures { result ≡ high_half self.now }
    {
        (u32::from(self.major) << 16) + u32::from(self.minor)
    }

    /// The second number: build in the high half, revision in the low half.
    pub fn to_ls(&self) -> u32
        ensures { result ≡ low_half self.now }
    {
        (u32::from(self.build) << 16) + u32::from(self.revision)
    }

    /// Returns the four parts in decimal digits, joined by dots. `AllocError` if memory ran out.
    pub fn to_string<A: Allocator + Copy + Drop>(
        &self,
        alloc: A,
    ) -> std::result::Result<String<A>, AllocError>
        ensures { IfOk result (λ s. string_bytes s ≡ version_text self.now) }
    {
        dotted(alloc, self.major, self.minor, self.build, self.revision)
    }
}

/// The fixed file information, 52 bytes.
/// Layout: <https://learn.microsoft.com/windows/win32/api/verrsrc/ns-verrsrc-vs_fixedfileinfo>.
#[repr(C)]
#[derive(Clone, Copy, Debug, Default, PartialEq)]
pub struct VsFixedFileInfo {
    /// `VS_FFI_SIGNATURE`. Reading doesn't check it: see `is_valid`.
    pub signature: u32,
    /// The version of this structure: `VS_FFI_STRUCVERSION`.
    pub struct_version: u32,
    /// The first two parts of the file version. `file_version` returns all four.
    pub file_version_ms: u32,
    /// The last two parts of the file version.
    pub file_version_ls: u32,
    /// The first two parts of the product version. `product_version` returns all four.
    pub product_version_ms: u32,
    /// The last two parts of the product version.
    pub product_version_ls: u32,
    /// The valid bits of `file_flags`.
    pub file_flags_mask: u32,
    /// Flags: `VS_FF_..`.
    pub file_flags: u32,
    /// The system that the file was made for: one of `VOS_..`.
    pub file_os: u32,
    /// The type of the file: one of `VFT_..`.
    pub file_type: u32,
    /// The type of a driver or a font: one of `VFT2_..`.
    pub file_subtype: u32,
    /// The high half of the file's date.
    pub file_date_ms: u32,
    /// The low half of the file's date.
    pub file_date_ls: u32,
}

impl VsFixedFileInfo {
    /// Reads the fixed file information at `offset`. The caller has checked that its 52 bytes are there.
    #[tactic(auto, unfolding(crate::specs::VersionFields::fixed_info_at))]
    pub(crate) fn at(bytes: &[u8], offset: usize) -> VsFixedFileInfo
        requires { offset + 52 ≤ length bytes.now }
        ensures { result ≡ fixed_info_at bytes.now offset }
    {
        VsFixedFileInfo {
            signature: read_u32(bytes, offset),
            struct_version: read_u32(bytes, offset + 4),
            file_version_ms: read_u32(bytes, offset + 8),
            file_version_ls: read_u32(bytes, offset + 12),
            product_version_ms: read_u32(bytes, offset + 16),
            product_version_ls: read_u32(bytes, offset + 20),
            file_flags_mask: read_u32(bytes, offset + 24),
            file_flags: read_u32(bytes, offset + 28),
            file_os: read_u32(bytes, offset + 32),
            file_type: read_u32(bytes, offset + 36),
            file_subtype: read_u32(bytes, offset + 40),
            file_date_ms: read_u32(bytes, offset + 44),
            file_date_ls: read_u32(bytes, offset + 48),
        }
    }

    /// Reads the fixed file information in version information: the value of the first string with the key
    /// `VS_VERSION_INFO`. `data` is the content of the resource with the id `RT_VERSION`. `None` without such a string.
    ///
    /// Errors, in this order: those of the first string that cannot be read, `Short` or `ResourceString`; `Short` if
    /// the value has fewer than 52 bytes. Offsets in errors count from the start of `data`.
    #[tactic(auto, using(crate::proofs::ValueRanges::range_of_value), unfolding(crate::specs::VersionStrings::value_ranges, crate::specs::VersionFields::fixed_info_of))]
    pub fn of_strings(data: &[u8]) -> Result<Option<VsFixedFileInfo>>
        ensures { Returns result (fixed_info_of data.now) }
    {
        let ranges = value_ranges::<1>(data, &[VS_VERSION_INFO_KEY])?;
        fixed_info_in(data, ranges[0])
    }

    /// Whether the signature is `VS_FFI_SIGNATURE`.
    pub fn is_valid(&self) -> bool
        ensures { result ≡ (self.now.signature == 0xFEEF04BD) }
    {
        self.signature == VS_FFI_SIGNATURE
    }

    /// The version of the file.
    pub fn file_version(&self) -> VersionField
        ensures { result ≡ version_of_halves self.now.file_version_ms self.now.file_version_ls }
    {
        VersionField::from_ms_ls(self.file_version_ms, self.file_version_ls)
    }

    /// The version of the product.
    pub fn product_version(&self) -> VersionField
        ensures { result
            ≡ version_of_halves self.now.product_version_ms self.now.product_version_ls }
    {
        VersionField::from_ms_ls(self.product_version_ms, self.product_version_ls)
    }
}

/// The name of a string that describes the file, as in
/// <https://learn.microsoft.com/windows/win32/menurc/versioninfo-resource>.
#[derive(Clone, Copy, PartialEq)]
pub enum VersionName {
    /// Additional information about the file.
    Comments,
    /// The company that made the file.
    CompanyName,
    /// A description of the file for users.
    FileDescription,
    /// The version of the file.
    FileVersion,
    /// The internal name of the file.
    InternalName,
    /// The copyright notices of the file.
    LegalCopyright,
    /// The trademarks that apply to the file.
    LegalTrademarks,
    /// The original file name.
    OriginalFilename,
    /// Why the file is a private build.
    PrivateBuild,
    /// The name of the product that the file belongs to.
    ProductName,
    /// The version of that product.
    ProductVersion,
    /// How this build differs from the standard one.
    SpecialBuild,
}

/// The key with this index in `KEYS`.
fn key_at(index: usize) -> &'static str
    requires { index < 13 }
    ensures { result.now ≡ slice_index_or (map (λ key. key.now) KEYS) index [] }
{
    KEYS[index]
}

impl VersionName {
    /// The name as it is in the keys of strings.
    fn key(self) -> &'static str
        ensures name { result.now ≡ version_key self }
        ensures plain { IsPlain result.now }
    {
        key_at(1 + self as usize)
    }

    /// Returns the range of the value of the first string with this name: its bytes, with the padding to a multiple of
    /// four if that is there. `data` is the content of the resource with the id `RT_VERSION`, and the range counts from
    /// its start. `None` without such a string.
    ///
    /// Errors: those of `VsFixedFileInfo::of_strings`, in the same order.
    #[tactic(auto, using(crate::proofs::ValueRanges::range_of_value), unfolding(crate::specs::VersionStrings::value_ranges, crate::specs::VersionFields::fixed_info_of, crate::specs::VersionFields::value_range_in))]
    pub fn value_range(self, data: &[u8]) -> Result<Option<ByteRange>>
        ensures range { Returns result (value_range_in self data.now) }
        ensures within { IfOk result (λ r. IfSome r (IsWithin data.now)) }
    {
        let ranges = value_ranges::<2>(data, &[VS_VERSION_INFO_KEY, self.key()])?;
        fixed_info_in(data, ranges[0])?;
        Ok(ranges[1])
    }
}

/// The strings that describe the file: for each of the twelve names the value of the first string with that name. The
/// getters return them as texts. They ask for memory only if there is a value with an even number of bytes.
#[derive(Clone, Copy, Debug)]
pub struct StringFileInfo<'a> {
    comments: Option<&'a [u8]>,
    company_name: Option<&'a [u8]>,
    file_description: Option<&'a [u8]>,
    file_version: Option<&'a [u8]>,
    internal_name: Option<&'a [u8]>,
    legal_copyright: Option<&'a [u8]>,
    legal_trademarks: Option<&'a [u8]>,
    original_filename: Option<&'a [u8]>,
    private_build: Option<&'a [u8]>,
    product_name: Option<&'a [u8]>,
    product_version: Option<&'a [u8]>,
    special_build: Option<&'a [u8]>,
}

/// The value as a text, if there is a value and it is a text.
fn text_in<A: Allocator + Copy + Drop>(
    alloc: A,
    value: Option<&[u8]>,
) -> std::result::Result<Option<String<A>>, AllocError>
    ensures { ReturnsText result (option_map (λ v. v.now) value.entry) }
{
    match value {
        Some(bytes) => text_of(alloc, bytes),
        None => Ok(None),
    }
}

impl<'a> StringFileInfo<'a> {
    /// Returns additional information about the file. `None` if no string has the key `Comments`, or if its value is
    /// not a text. `AllocError` if memory ran out.
    pub fn comments<A: Allocator + Copy + Drop>(
        &self,
        alloc: A,
    ) -> std::result::Result<Option<String<A>>, AllocError>
        ensures { ReturnsText result (file_strings_view self.now).comments }
    {
        text_in(alloc, self.comments)
    }

    /// Returns the company that made the file. `None` if no string has the key `CompanyName`, or if its value is not a
    /// text. `AllocError` if memory ran out.
    pub fn company_name<A: Allocator + Copy + Drop>(
        &self,
        alloc: A,
    ) -> std::result::Result<Option<String<A>>, AllocError>
        ensures { ReturnsText result (file_strings_view self.now).company_name }
    {
        text_in(alloc, self.company_name)
    }

    /// Returns a description of the file for users. `None` if no string has the key `FileDescription`, or if its value
    /// is not a text. `AllocError` if memory ran out.
    pub fn file_description<A: Allocator + Copy + Drop>(
        &self,
        alloc: A,
    ) -> std::result::Result<Option<String<A>>, AllocError>
        ensures { ReturnsText result (file_strings_view self.now).file_description }
    {
        text_in(alloc, self.file_description)
    }

    /// Returns the version of the file. `None` if no string has the key `FileVersion`, or if its value is not a text.
    /// `AllocError` if memory ran out.
    pub fn file_version<A: Allocator + Copy + Drop>(
        &self,
        alloc: A,
    ) -> std::result::Result<Option<String<A>>, AllocError>
        ensures { ReturnsText result (file_strings_view self.now).file_version }
    {
        text_in(alloc, self.file_version)
    }

    /// Returns the internal name of the file. `None` if no string has the key `InternalName`, or if its value is not a
    /// text. `AllocError` if memory ran out.
    pub fn internal_name<A: Allocator + Copy + Drop>(
        &self,
        alloc: A,
    ) -> std::result::Result<Option<String<A>>, AllocError>
        ensures { ReturnsText result (file_strings_view self.now).internal_name }
    {
        text_in(alloc, self.internal_name)
    }

    /// Returns the copyright notices of the file. `None` if no string has the key `LegalCopyright`, or if its value is
    /// not a text. `AllocError` if memory ran out.
    pub fn legal_copyright<A: Allocator + Copy + Drop>(
        &self,
        alloc: A,
    ) -> std::result::Result<Option<String<A>>, AllocError>
        ensures { ReturnsText result (file_strings_view self.now).legal_copyright }
    {
        text_in(alloc, self.legal_copyright)
    }

    /// Returns the trademarks that apply to the file. `None` if no string has the key `LegalTrademarks`, or if its
    /// value is not a text. `AllocError` if memory ran out.
    pub fn legal_trademarks<A: Allocator + Copy + Drop>(
        &self,
        alloc: A,
    ) -> std::result::Result<Option<String<A>>, AllocError>
        ensures { ReturnsText result (file_strings_view self.now).legal_trademarks }
    {
        text_in(alloc, self.legal_trademarks)
    }

    /// Returns the original file name. `None` if no string has the key `OriginalFilename`, or if its value is not a
    /// text. `AllocError` if memory ran out.
    pub fn original_filename<A: Allocator + Copy + Drop>(
        &self,
        alloc: A,
    ) -> std::result::Result<Option<String<A>>, AllocError>
        ensures { ReturnsText result (file_strings_view self.now).original_filename }
    {
        text_in(alloc, self.original_filename)
    }

    /// Returns why the file is a private build. `None` if no string has the key `PrivateBuild`, or if its value is not
    /// a text. `AllocError` if memory ran out.
    pub fn private_build<A: Allocator + Copy + Drop>(
        &self,
        alloc: A,
    ) -> std::result::Result<Option<String<A>>, AllocError>
        ensures { ReturnsText result (file_strings_view self.now).private_build }
    {
        text_in(alloc, self.private_build)
    }

    /// Returns the name of the product that the file belongs to. `None` if no string has the key `ProductName`, or if
    /// its value is not a text. `AllocError` if memory ran out.
    pub fn product_name<A: Allocator + Copy + Drop>(
        &self,
        alloc: A,
    ) -> std::result::Result<Option<String<A>>, AllocError>
        ensures { ReturnsText result (file_strings_view self.now).product_name }
    {
        text_in(alloc, self.product_name)
    }

    /// Returns the version of that product. `None` if no string has the key `ProductVersion`, or if its value is not a
    /// text. `AllocError` if memory ran out.
    pub fn product_version<A: Allocator + Copy + Drop>(
        &self,
        alloc: A,
    ) -> std::result::Result<Option<String<A>>, AllocError>
        ensures { ReturnsText result (file_strings_view self.now).product_version }
    {
        text_in(alloc, self.product_version)
    }

    /// Returns how this build differs from the standard one. `None` if no string has the key `SpecialBuild`, or if its
    /// value is not a text. `AllocError` if memory ran out.
    pub fn special_build<A: Allocator + Copy + Drop>(
        &self,
        alloc: A,
    ) -> std::result::Result<Option<String<A>>, AllocError>
        ensures { ReturnsText result (file_strings_view self.now).special_build }
    {
        text_in(alloc, self.special_build)
    }
}

/// The version information of an image.
#[derive(Clone, Copy, Debug)]
pub struct VersionInfo<'a> {
    /// The fixed file information. `None` if no string has the key `VS_VERSION_INFO`.
    pub fixed_info: Option<VsFixedFileInfo>,
    /// The strings that describe the file.
    pub string_info: StringFileInfo<'a>,
}

/// The bytes in this range of `data`, if there is a range.
fn bytes_in<'a>(data: &'a [u8], range: Option<ByteRange>) -> Option<&'a [u8]>
    requires { IfSome range (IsWithin data.now) }
    ensures { option_map (λ v. v.now) result ≡ content_of data.entry.now range }
{
    Some(range?.of(data))
}

/// The value of a key, by its index in `KEYS`.
fn value_in<'a>(data: &'a [u8], ranges: &[Option<ByteRange>; 13], index: usize) -> Option<&'a [u8]>
    requires key { index < 13 }
    requires ranges { value_ranges (map (λ key. key.now) KEYS) data.now ≡ Ok ranges.now }
    requires within { All (λ range. IfSome range (IsWithin data.now)) ranges.now }
    ensures { option_map (λ v. v.now) result ≡ value_of
        (slice_index_or (map (λ key. key.now) KEYS) index []) (read (strings data.entry.now)) }
{
    bytes_in(data, ranges[index])
}

/// The fixed file information in this range of `data`, if there is a range. `Short` if the range has fewer than 52
/// bytes.
fn fixed_info_in(data: &[u8], value: Option<ByteRange>) -> Result<Option<VsFixedFileInfo>>
    requires { IfSome value (IsWithin data.now) }
    ensures { Returns result (fixed_info_in (content_of data.now value)) }
{
    let Some(range) = value else {
        return Ok(None);
    };
    let bytes = range.of(data);
    if bytes.len() < SIZE_OF_FIXED_INFO {
        return Err(Error::Short {
            at: range.offset,
            needed: SIZE_OF_FIXED_INFO,
        });
    }
    Ok(Some(VsFixedFileInfo::at(bytes, 0)))
}

impl<'a> VersionInfo<'a> {
    /// Reads the version information in `data`, the content of a resource with the id `RT_VERSION`.
    ///
    /// Errors, in order: those of the first string that cannot be read, `Short` or `ResourceString`; `Short` if the value of
    /// `VS_VERSION_INFO` has fewer than 52 bytes. Their offsets count from the start of `data`.
    #[tactic(auto, using(crate::proofs::ValueRanges::range_of_value), unfolding(crate::specs::VersionStrings::value_ranges, crate::specs::VersionFields::fixed_info_of, crate::specs::VersionFields::version_in))]
    pub fn of_strings(data: &'a [u8]) -> Result<VersionInfo<'a>>
        ensures { ReturnsAs version_view result (version_in data.entry.now) }
    {
        let ranges = value_ranges::<13>(data, &KEYS)?;
        Ok(VersionInfo {
            fixed_info: fixed_info_in(data, ranges[0])?,
            string_info: StringFileInfo {
                comments: value_in(data, &ranges, 1),
                company_name: value_in(data, &ranges, 2),
                file_description: value_in(data, &ranges, 3),
                file_version: value_in(data, &ranges, 4),
                internal_name: value_in(data, &ranges, 5),
                legal_copyright: value_in(data, &ranges, 6),
                legal_trademarks: value_in(data, &ranges, 7),
                original_filename: value_in(data, &ranges, 8),
                private_build: value_in(data, &ranges, 9),
                product_name: value_in(data, &ranges, 10),
                product_version: value_in(data, &ranges, 11),
                special_build: value_in(data, &ranges, 12),
            },
        })
    }

    /// Reads the version information in the content of a resource, if there is one.
    pub(crate) fn of_content(content: Option<&'a [u8]>) -> Result<Option<VersionInfo<'a>>>
        ensures { ReturnsAs (option_map version_view) result
            (version_of_content (option_map (λ s. s.now) content.entry)) }
    {
        match content {
            None => Ok(None),
            Some(data) => {
                let version = VersionInfo::of_strings(data)?;
                Ok(Some(version))
            }
        }
    }

    /// The version information: the content of the first entry with the id `RT_VERSION`.
    pub(crate) fn of_entries(
        image: &MappedBytes<'a, '_>,
        bytes: &[u8],
        it: ResourceEntryIterator,
    ) -> Result<Option<VersionInfo<'a>>>
        ensures { IsVersion (offset_in image.now.map) image.now.bytes.now bytes.now
            (entries_left it.entry) (answer_by (option_map version_view) result) }
    {
        let content = content(image, bytes, it, RT_VERSION)?;
        VersionInfo::of_content(content)
    }

    /// Reads the version information: the content of the first entry with the id `RT_VERSION`. `pe` is the whole file,
    /// `bytes` the data of the resource directory, `it` the entries of the first directory. `None` without such an
    /// entry, or if the walk over directories ends at a directory. Errors, in this order:
    /// - of the walk, `Short` and `ResourceCycle`;
    /// - of the data entry, `Short` if it is truncated, `Unmapped` if its RVA is not mapped, `ResourceBounds` if its
    ///   content is not in the file;
    /// - those of the first string that cannot be read, `Short` or `ResourceString`, then `Short` if the value of
    ///   `VS_VERSION_INFO` has fewer than 52 bytes. Their offsets count from the start of the version information.
    ///
    /// It asks for no memory: `_alloc` is not used.
    pub fn parse<A: Allocator + Drop>(
        _alloc: A,
        pe: &'a [u8],
        bytes: &'a [u8],
        it: ResourceEntryIterator<'a>,
        sections: &[SectionTable],
        file_alignment: u32,
        opts: &ParseOptions,
    ) -> Result<Option<VersionInfo<'a>>>
        ensures version { IsVersion (map_of opts.now sections.now file_alignment) pe.entry.now
            bytes.entry.now (entries_left it.entry) (answer_by (option_map version_view) result) }
        ensures no_memory { answer_by (option_map version_view) result ≢ Err Memory }
    {
        let image = MappedBytes::new(pe, sections, file_alignment, opts);
        VersionInfo::of_entries(&image, bytes, it)
    }
}
