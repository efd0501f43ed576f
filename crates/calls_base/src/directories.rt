//! Directories of an image, a file each: thread-local storage, the load configuration and its tables of code, base relocations, delay
//! and bound imports, .NET, certificates. This file has what they share: the image as pe_directories takes it, and steps of walks by
//! what stands first in what is left. A walk is the range of the bytes that are left.
//! https://learn.microsoft.com/windows/win32/debug/pe-format#optional-header-data-directories-image-only

ghost use Rattle.std.specs.Prelude.{◌≡◌, ◌+◌, ◌<◌, ◌^◌, length};
ghost use Rattle.pe_directories.specs.DirectoryRefusals.{directory_answer};
ghost use Rattle.pe_directories.specs.ImageParts.{image_view};
ghost use Rattle.calls_base.specs.Directories.{image_parts, range_left, table_at, va_offset};
ghost use Rattle.calls_base.specs.Views.{directory_sections, may_map};

use crate::image::{directory, is_absent};
use crate::ranges::{Range, range_of};
use crate::results::options;
use crate::view::View;
use pe_core::DataDirectory;
use pe_directories::{DirectoryError, ImageBytes};
use pe_lookup::sections_by;

/// The result of a call of pe_directories.
pub type Result<T> = std::result::Result<T, DirectoryError>;

/// The image as pe_directories takes it, with the sections that may map this RVA. A virtual address less the image base may have
/// more than 32 bits.
pub fn image_bytes<'a>(view: &View<'a>, rva: u64) -> ImageBytes<'a>
    ensures { image_view result
        ≡ image_parts view.now.bytes.now view.now.image.now (may_map view.now rva) }
{
    let image = view.image;
    ImageBytes {
        bytes: view.bytes,
        sections: sections_by(view.sections, view.index, rva),
        file_alignment: image.file_alignment,
        image_base: image.base,
        is_64: image.width == 64,
        opts: options(image.mode),
    }
}

/// The image with the sections that may map the RVA of this directory.
pub fn image_at<'a>(view: &View<'a>, directory: DataDirectory) -> ImageBytes<'a>
    ensures { image_view result ≡ image_parts view.now.bytes.now view.now.image.now
        (may_map view.now directory.virtual_address) }
{
    image_bytes(view, u64::from(directory.virtual_address))
}

/// The offset of a virtual address.
pub fn offset_of_va(view: &View, va: u64) -> Result<usize>
    ensures { directory_answer (λ p. p) result
        ≡ va_offset view.now.bytes.now view.now.image.now (may_map view.now) va }
{
    image_bytes(view, va.saturating_sub(view.image.base)).offset_of_va(va)
}

/// The bytes of the directory with an index as a range, if it is not absent.
pub fn table_at(view: &View, index: usize) -> Result<Option<Range>>
    ensures { directory_answer (λ x. x) result
        ≡ table_at index view.now.bytes.now view.now.image.now
        (directory_sections view.now index) }
{
    let directory = directory(view.image, index);
    if is_absent(directory) {
        return Ok(None);
    }
    let range = image_at(view, directory).range_of(directory)?;
    Ok(Some(range_of(range)))
}

/// The last bytes of a range, as many as are left of it.
pub fn range_left(range: Range, left: &[u8]) -> Range
    requires { range.offset + range.length < 2 ^ 64 }
    ensures { result ≡ range_left range (length left.now) }
{
    let left = left.len() as u64;
    Range {
        offset: range.offset + range.length.saturating_sub(left),
        length: left,
    }
}
