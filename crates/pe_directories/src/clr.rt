//! The .NET runtime's parts of an image, directory 14: the CLR header, and the metadata to which it leads (ECMA-335,
//! [II.25.3.3](https://www.ecma-international.org/publications-and-standards/standards/ecma-335/) and II.24.2). The
//! metadata are a root, which has the version of the runtime that the image was made for, and streams, whose names say
//! what they hold: `#~` the tables, `#Strings`, `#US`, `#GUID` and `#Blob`.
//!
//! A caller that has such a header has a .NET image; the metadata say what is in it. Where its code was compiled ahead of time,
//! there is a header of [ReadyToRun](https://github.com/dotnet/runtime/blob/main/docs/design/coreclr/botr/readytorun-format.md)
//! too.

ghost use Rattle.std.specs.Prelude.{◌≡◌, ◌+◌, ◌*◌, ◌<◌, ◌≤◌, length, IfSome, Some};
ghost use Rattle.std.specs.Option.{option_map};
ghost use Rattle.std.specs.Iterator.{at_most};
ghost use Rattle.pe_core.specs.Records.{data_directory};
ghost use Rattle.pe_core.specs.Text.{text_at};
ghost use Rattle.pe_directories.specs.DirectoryRefusals.{DirectoryReturns};
ghost use Rattle.pe_directories.specs.Walks.{Steps, rest_of};
ghost use Rattle.pe_directories.specs.Clr.{clr_header_at, clr_header, ready_to_run_of, ready_to_run, metadata_view, metadata_of, clr_metadata, stream_view, name_field, name_length, stream_of, first_stream, streams_left, most_streams, stream_bytes};
ghost use Rattle.pe_directories.specs.ImageParts.{image_view};

use crate::error::{DirectoryError, Result};
use crate::image_bytes::ImageBytes;
use pe_core::{
    DataDirectory, Error, read_u16, read_u32, require_bytes, rounded_up, slice_at, text_at,
};

/// The size of a CLR header in bytes.
const SIZE_OF_CLR_HEADER: usize = 72;

/// The signature of a ReadyToRun header, `RTR` and a zero.
const READY_TO_RUN_MAGIC: u32 = 0x0052_5452;

/// The size of a ReadyToRun header in bytes.
const SIZE_OF_READY_TO_RUN: usize = 16;

/// The signature of the metadata root, `BSJB`.
const METADATA_MAGIC: u32 = 0x424A_5342;

/// The size of the fields of a metadata root before its version text, in bytes.
const VERSION_OFFSET: usize = 16;

/// The size of the fields of a stream header before its name, in bytes.
const NAME_OFFSET: usize = 8;

/// How many bytes a stream's name has at most, with the zero that ends it.
const MOST_OF_NAME: usize = 32;

/// The CLR header (`IMAGE_COR20_HEADER`), 72 bytes. Directories in it are RVAs and sizes.
#[repr(C)]
#[derive(Clone, Copy, Debug, PartialEq)]
pub struct ClrHeader {
    /// The size of the header in bytes.
    pub cb: u32,
    /// The version of the runtime that is needed, major part.
    pub major_runtime_version: u16,
    /// The version of the runtime that is needed, minor part.
    pub minor_runtime_version: u16,
    /// The metadata.
    pub metadata: DataDirectory,
    /// Flags, `COMIMAGE_FLAGS_*`.
    pub flags: u32,
    /// The metadata token of the entry point, or the RVA of a native one (`COMIMAGE_FLAGS_NATIVE_ENTRYPOINT`).
    pub entry_point_token: u32,
    /// The managed resources.
    pub resources: DataDirectory,
    /// The strong name signature.
    pub strong_name_signature: DataDirectory,
    /// Always zero.
    pub code_manager_table: DataDirectory,
    /// The fixups of tables of virtual functions.
    pub vtable_fixups: DataDirectory,
    /// Always zero.
    pub export_address_table_jumps: DataDirectory,
    /// The header of code that was compiled ahead of time (ReadyToRun), else zero.
    pub managed_native_header: DataDirectory,
}

/// The RVA and size at `offset`, whose 8 bytes the caller knows to lie in `bytes`.
#[tactic(auto, unfolding(pe_core::specs::Records::data_directory))]
fn directory_at(bytes: &[u8], offset: usize) -> DataDirectory
    requires { offset + 8 ≤ length bytes.now }
    ensures { result ≡ data_directory bytes.now offset }
{
    DataDirectory {
        virtual_address: read_u32(bytes, offset),
        size: read_u32(bytes, offset + 4),
    }
}

impl ClrHeader {
    /// The header at `offset`, whose 72 bytes the caller knows to lie in `bytes`.
    #[tactic(auto, unfolding(crate::specs::Clr::clr_header_at))]
    fn at(bytes: &[u8], offset: usize) -> ClrHeader
        requires { offset + 72 ≤ length bytes.now }
        ensures { result ≡ clr_header_at bytes.now offset }
    {
        ClrHeader {
            cb: read_u32(bytes, offset),
            major_runtime_version: read_u16(bytes, offset + 4),
            minor_runtime_version: read_u16(bytes, offset + 6),
            metadata: directory_at(bytes, offset + 8),
            flags: read_u32(bytes, offset + 16),
            entry_point_token: read_u32(bytes, offset + 20),
            resources: directory_at(bytes, offset + 24),
            strong_name_signature: directory_at(bytes, offset + 32),
            code_manager_table: directory_at(bytes, offset + 40),
            vtable_fixups: directory_at(bytes, offset + 48),
            export_address_table_jumps: directory_at(bytes, offset + 56),
            managed_native_header: directory_at(bytes, offset + 64),
        }
    }

    /// The CLR header at the RVA of `directory`, 72 bytes, whatever the directory's size says. Errors, in order: `Image`
    /// with `Unmapped`; `Image` with `Short`; `ClrHeaderSize` if the header says that it has fewer than 72 bytes.
    #[tactic(auto, unfolding(crate::specs::Clr::clr_header))]
    pub fn parse(image: &ImageBytes<'_>, directory: DataDirectory) -> Result<ClrHeader>
        ensures { DirectoryReturns (λ h. h) result (clr_header (image_view image.now) directory) }
    {
        let offset = image.record_at(directory.virtual_address, SIZE_OF_CLR_HEADER)?;
        let size = read_u32(image.bytes, offset);
        if size < 72 {
            return Err(DirectoryError::ClrHeaderSize(size));
        }
        Ok(ClrHeader::at(image.bytes, offset))
    }

    /// The root of the metadata. Errors, in order: `Image` with `Unmapped`; `Image` with `Short` if the metadata are
    /// truncated, or do not hold the first 16 bytes of the root; `Image` with `BadMagic` if they do not start with `BSJB`;
    /// `Image` with `Short` if they do not hold the root.
    pub fn metadata<'a>(&self, image: &ImageBytes<'a>) -> Result<ClrMetadata<'a>>
        ensures { DirectoryReturns metadata_view result (clr_metadata (image_view image.now) self.now) }
    {
        ClrMetadata::parse(image.table(self.metadata)?)
    }

    /// The header of ReadyToRun code, at the start of `managed_native_header`, whose range `ImageBytes::range_of` returns.
    /// `None` if that directory is empty, or starts with another signature, as that of an image of NGEN. Errors, in order:
    /// `Image` with `Unmapped`; `Image` with `Short` if the directory is truncated, or has fewer than 16 bytes.
    pub fn ready_to_run(&self, image: &ImageBytes<'_>) -> Result<Option<ReadyToRunHeader>>
        ensures { DirectoryReturns (λ h. h) result (ready_to_run (image_view image.now) self.now) }
    {
        if self.managed_native_header.size == 0 {
            return Ok(None);
        }
        ReadyToRunHeader::parse(image.table(self.managed_native_header)?)
    }
}

/// The header of code that was compiled ahead of time (`READYTORUN_HEADER`), 16 bytes. The entries of its sections follow it,
/// 12 bytes each: a type, an RVA and a size.
#[repr(C)]
#[derive(Clone, Copy, Debug, PartialEq)]
pub struct ReadyToRunHeader {
    /// The version of the format, major part: a runtime takes no other.
    pub major_version: u16,
    /// The version of the format, minor part.
    pub minor_version: u16,
    /// Flags, `READYTORUN_FLAG_*`.
    pub flags: u32,
    /// The number of sections.
    pub number_of_sections: u32,
}

impl ReadyToRunHeader {
    /// The header at the start of these bytes, which are those of the directory. `None` if they do not start with `RTR` and a
    /// zero. Error: `Image` with `Short` if there are fewer than 16.
    #[tactic(auto, unfolding(crate::specs::Clr::ready_to_run_of))]
    pub fn parse(bytes: &[u8]) -> Result<Option<ReadyToRunHeader>>
        ensures { DirectoryReturns (λ h. h) result (ready_to_run_of bytes.now) }
    {
        if bytes.len() < 4 || read_u32(bytes, 0) != READY_TO_RUN_MAGIC {
            return Ok(None);
        }
        require_bytes(bytes, 0, SIZE_OF_READY_TO_RUN)?;
        Ok(Some(ReadyToRunHeader {
            major_version: read_u16(bytes, 4),
            minor_version: read_u16(bytes, 6),
            flags: read_u32(bytes, 8),
            number_of_sections: read_u32(bytes, 12),
        }))
    }
}

/// The root of CLR metadata.
#[derive(Clone, Copy)]
pub struct ClrMetadata<'a> {
    /// The version of the metadata's format, major part.
    pub major_version: u16,
    /// The version of the metadata's format, minor part.
    pub minor_version: u16,
    /// The field of the version text, with the zeros that fill it up; see `version_text`.
    pub version: &'a [u8],
    /// Reserved.
    pub flags: u16,
    /// The number of streams.
    pub number_of_streams: u16,
    /// The bytes of the metadata from the first stream header on.
    pub stream_headers: &'a [u8],
    /// The bytes of the metadata, from which the offsets of streams count.
    pub bytes: &'a [u8],
}

impl<'a> ClrMetadata<'a> {
    /// The root at the start of these bytes, which are those of the metadata. Errors, in order: `Image` with `Short` if
    /// they do not hold its first 16 bytes; `Image` with `BadMagic`; `Image` with `Short` if they do not hold the root.
    #[tactic(auto, unfolding(crate::specs::Clr::metadata_of, crate::specs::Clr::metadata_at))]
    pub fn parse(bytes: &'a [u8]) -> Result<ClrMetadata<'a>>
        ensures { DirectoryReturns metadata_view result (metadata_of bytes.entry.now) }
    {
        require_bytes(bytes, 0, VERSION_OFFSET)?;
        let magic = read_u32(bytes, 0);
        if magic != METADATA_MAGIC {
            return Err(DirectoryError::Image(Error::BadMagic(u64::from(magic))));
        }
        let length = read_u32(bytes, 12) as usize;
        require_bytes(bytes, VERSION_OFFSET, length + 4)?;
        let end = VERSION_OFFSET + length;
        Ok(ClrMetadata {
            major_version: read_u16(bytes, 4),
            minor_version: read_u16(bytes, 6),
            version: &bytes[VERSION_OFFSET..end],
            flags: read_u16(bytes, end),
            number_of_streams: read_u16(bytes, end + 2),
            stream_headers: bytes.split_at(end + 4).1,
            bytes,
        })
    }

    /// The version text, as `v4.0.30319`. `None` if it is not NUL-terminated or not UTF-8.
    pub fn version_text(&self) -> Option<&'a str>
        ensures { option_map (λ s. s.now) result ≡ text_at self.now.version.now 0 }
    {
        text_at(self.version, 0)
    }

    /// The streams.
    pub fn streams(&self) -> ClrStreams<'a>
        ensures { streams_left result
            ≡ Some (self.now.number_of_streams, self.now.stream_headers.now) }
    {
        ClrStreams {
            count: self.number_of_streams,
            left: Some(self.stream_headers),
        }
    }

    /// The bytes of a stream of these metadata. Error: `Image` with `Short`.
    pub fn stream_bytes(&self, stream: &ClrStream<'_>) -> Result<&'a [u8]>
        ensures { DirectoryReturns (λ s. s.now) result
            (stream_bytes (metadata_view self.now) (stream_view stream.now)) }
    {
        Ok(slice_at(self.bytes, stream.offset as usize, stream.size as usize)?)
    }
}

/// A stream of CLR metadata, by its header.
#[derive(Clone, Copy)]
pub struct ClrStream<'a> {
    /// The offset of the stream in bytes, from the start of the metadata.
    pub offset: u32,
    /// The size of the stream in bytes.
    pub size: u32,
    /// The name, without the zero that ends it.
    pub name: &'a [u8],
}

/// The bytes of a stream header that may hold the name and the zero that ends it.
fn name_field(bytes: &[u8]) -> &[u8]
    requires { 8 ≤ length bytes.now }
    ensures { result.now ≡ name_field bytes.now }
{
    let rest = &bytes[NAME_OFFSET..];
    &rest[..rest.len().min(MOST_OF_NAME)]
}

/// The length of a stream's name. `None` if it is not NUL-terminated.
#[tactic(auto, unfolding(crate::specs::Clr::name_length))]
fn name_length(field: &[u8]) -> Option<usize>
    ensures found { result ≡ name_length field.now }
    ensures within { IfSome result (λ n. n < length field.now) }
{
    field.iter().position(|byte| *byte == 0)
}

/// The stream whose header is at the start of the bytes, and the bytes after the header. Errors, in order: `Image` with
/// `Short` if there are fewer than 8 bytes; `StreamName`; `Image` with `Short` if the header is truncated.
#[tactic(auto, unfolding(crate::specs::Clr::stream_of))]
fn stream_at<'a>(bytes: &'a [u8]) -> Result<(ClrStream<'a>, &'a [u8])>
    ensures { DirectoryReturns
        (λ x. (stream_view x.0, x.1.now)) result (stream_of bytes.entry.now) }
{
    require_bytes(bytes, 0, NAME_OFFSET)?;
    let field = name_field(bytes);
    let Some(length) = name_length(field) else {
        return Err(DirectoryError::StreamName);
    };
    let size = rounded_up(NAME_OFFSET + length + 1, 4);
    require_bytes(bytes, 0, size)?;
    let stream = ClrStream {
        offset: read_u32(bytes, 0),
        size: read_u32(bytes, 4),
        name: &field[..length],
    };
    Ok((stream, bytes.split_at(size).1))
}

/// The streams of CLR metadata that are left. It is over after an error.
#[derive(Clone, Copy)]
pub struct ClrStreams<'a> {
    count: u16,
    left: Option<&'a [u8]>,
}

impl<'a> ClrStreams<'a> {
    /// The bytes that are left: the header of the next stream is at their start. Empty if the walk is over.
    pub fn rest(&self) -> &'a [u8]
        ensures { result.now ≡ rest_of (option_map (λ s. s.1) (streams_left self.now)) }
    {
        self.left.unwrap_or_default()
    }
}

impl<'a> Iterator for ClrStreams<'a> {
    type Item = Result<ClrStream<'a>>;

    ghost next_gives = { λ s r t. Steps stream_view first_stream (streams_left s) r (streams_left t) };

    ghost remaining = { λ s. at_most (most_streams (streams_left s)) };

    fn next(&mut self) -> Option<Result<ClrStream<'a>>> {
        let bytes = self.left?;
        self.left = None;
        if self.count == 0 {
            return None;
        }
        match stream_at(bytes) {
            Ok((stream, rest)) => {
                self.count -= 1;
                self.left = Some(rest);
                Some(Ok(stream))
            }
            Err(error) => Some(Err(error)),
        }
    }
}
