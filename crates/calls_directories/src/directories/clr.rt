//! The .NET runtime's parts of an image: the CLR header, and the metadata to which it leads (ECMA-335, II.25.3.3 and II.24.2).
//! The metadata are a root, which has the version of the runtime that the image was made for, and streams by their names.
//! One walk steps over the streams.
//! https://www.ecma-international.org/publications-and-standards/standards/ecma-335/

ghost use Rattle.std.specs.Prelude.{◌≡◌, ◌+◌, ◌≤◌, ◌<◌, ◌^◌, length};
ghost use Rattle.pe_directories.specs.Clr.{stream_view};
ghost use Rattle.pe_directories.specs.DirectoryRefusals.{directory_answer};
ghost use Rattle.calls_directories.specs.Clr.{clr_header_at, clr_metadata_at, content_of, first_stream_in, metadata_in, stream_reported, streams_after};
ghost use Rattle.calls_base.specs.Directories.{step_of};
ghost use Rattle.calls_base.specs.Views.{directory_sections, may_map};

use calls_base::directories::{Result, image_at, range_left};
use calls_base::image::{CLR_RUNTIME_HEADER, directory, is_absent};
use calls_base::ranges::{NO_BYTES, Range, range_of, slice_of};
use calls_base::view::View;
use pe_core::ByteRange;
use pe_directories::{ClrHeader, ClrMetadata, ClrStream};

/// The size of the fields of a metadata root before its version text, in bytes.
const VERSION_OFFSET: u64 = 16;

/// The size of the fields of a stream header before its name, in bytes.
const NAME_OFFSET: u64 = 8;

/// A walk over the streams of CLR metadata.
#[repr(C)]
#[derive(Clone, Copy)]
pub struct MetadataStreams {
    /// The metadata, from which the offsets of streams count.
    pub metadata: Range,
    /// The stream headers that are left, and the rest of the metadata.
    pub headers: Range,
    /// The number of streams that are left.
    pub count: u16,
    /// 0.
    pub spare: u16,
    /// 0.
    pub spare_too: u32,
}

/// The root of CLR metadata.
#[repr(C)]
#[derive(Clone, Copy)]
pub struct Metadata {
    /// The field of the version text, as `v4.0.30319`, and the zeros that fill it up. Whether it is UTF-8 is not tested.
    pub version: Range,
    /// A walk for `pe_c_next_metadata_stream`, at its start, with the range of the metadata.
    pub streams: MetadataStreams,
    /// The version of the metadata's format, major part.
    pub major_version: u16,
    /// The version of the metadata's format, minor part.
    pub minor_version: u16,
    /// Reserved.
    pub flags: u16,
    /// 0.
    pub spare: u16,
}

/// A stream of CLR metadata.
#[repr(C)]
#[derive(Clone, Copy)]
pub struct MetadataStream {
    /// The name, without the zero that ends it: `#~`, `#Strings`, `#US`, `#GUID`, `#Blob` or another.
    pub name: Range,
    /// The stream's bytes. Empty where `has_content` is 0.
    pub content: Range,
    /// The offset of the stream in bytes, from the start of the metadata.
    pub offset: u32,
    /// The size of the stream in bytes.
    pub size: u32,
    /// 1 where the stream lies in the metadata, else 0.
    pub has_content: u32,
    /// 0.
    pub spare: u32,
}

/// A walk that is over.
const NO_STREAMS: MetadataStreams = MetadataStreams {
    metadata: NO_BYTES,
    headers: NO_BYTES,
    count: 0,
    spare: 0,
    spare_too: 0,
};

/// The CLR header, if its directory is not absent.
pub fn clr_header_at(view: &View) -> Result<Option<ClrHeader>>
    ensures { directory_answer (λ h. h) result
        ≡ clr_header_at view.now.bytes.now view.now.image.now (directory_sections view.now 14) }
{
    let directory = directory(view.image, CLR_RUNTIME_HEADER);
    if is_absent(directory) {
        return Ok(None);
    }
    let header = ClrHeader::parse(&image_at(view, directory), directory)?;
    Ok(Some(header))
}

/// The metadata root at a range, which lies in the bytes.
fn metadata_in(bytes: &[u8], range: ByteRange) -> Result<Option<Metadata>>
    requires { range.offset + range.length ≤ length bytes.now }
    ensures { directory_answer (λ m. m) result ≡ metadata_in bytes.now range }
{
    let root = ClrMetadata::parse(&bytes[range.offset..range.offset + range.length])?;
    let range = range_of(range);
    Ok(Some(Metadata {
        version: Range {
            offset: range.offset + VERSION_OFFSET,
            length: root.version.len() as u64,
        },
        streams: MetadataStreams {
            metadata: range,
            headers: range_left(range, root.stream_headers),
            count: root.number_of_streams,
            spare: 0,
            spare_too: 0,
        },
        major_version: root.major_version,
        minor_version: root.minor_version,
        flags: root.flags,
        spare: 0,
    }))
}

pub fn clr_metadata_at(view: &View, header: &ClrHeader) -> Result<Option<Metadata>>
    ensures { directory_answer (λ m. m) result
        ≡ clr_metadata_at view.now.bytes.now view.now.image.now
        (may_map view.now header.now.metadata.virtual_address) header.now }
{
    let range = image_at(view, header.metadata).range_of(header.metadata)?;
    metadata_in(view.bytes, range)
}

/// The range of a stream's bytes, if they are all in the metadata at a range, which lies in the bytes.
fn content_of(metadata: Range, stream: &ClrStream) -> Option<Range>
    requires { metadata.offset + metadata.length < 2 ^ 64 }
    ensures { result ≡ content_of metadata (stream_view stream.now) }
{
    let (offset, size) = (u64::from(stream.offset), u64::from(stream.size));
    if offset + size > metadata.length {
        return None;
    }
    Some(Range {
        offset: metadata.offset + offset,
        length: size,
    })
}

/// The first stream of a walk, as callers get it. The walk's ranges lie in the bytes.
pub fn stream_reported(walk: &MetadataStreams, stream: &ClrStream) -> MetadataStream
    requires metadata { walk.now.metadata.offset + walk.now.metadata.length < 2 ^ 64 }
    requires header { walk.now.headers.offset + 8 < 2 ^ 64 }
    ensures { result ≡ stream_reported walk.now (stream_view stream.now) }
{
    let content = content_of(walk.metadata, stream);
    MetadataStream {
        name: Range {
            offset: walk.headers.offset + NAME_OFFSET,
            length: stream.name.len() as u64,
        },
        content: content.unwrap_or(NO_BYTES),
        offset: stream.offset,
        size: stream.size,
        has_content: u32::from(content.is_some()),
        spare: 0,
    }
}

/// The next stream of a walk. It is over after an error.
pub fn next_stream(bytes: &[u8], walk: &mut MetadataStreams) -> Result<Option<MetadataStream>>
    ensures stream { directory_answer (λ x. x) result
        ≡ step_of (stream_reported walk.old) (first_stream_in bytes.now walk.old) }
    ensures walk { walk.new ≡ streams_after walk.old (first_stream_in bytes.now walk.old) }
{
    let before = *walk;
    *walk = NO_STREAMS;
    let metadata = slice_of(bytes, &before.metadata)?;
    let mut streams = ClrMetadata {
        major_version: 0,
        minor_version: 0,
        version: &[],
        flags: 0,
        number_of_streams: before.count,
        stream_headers: slice_of(bytes, &before.headers)?,
        bytes: metadata,
    }
    .streams();
    let Some(stream) = streams.next() else {
        *walk = before;
        return Ok(None);
    };
    let stream = stream?;
    *walk = MetadataStreams {
        headers: range_left(before.headers, streams.rest()),
        count: before.count - 1,
        ..before
    };
    Ok(Some(stream_reported(&before, &stream)))
}
