//! The Rich header, which Microsoft's linker writes before the PE header: which tools made the objects of the image. Microsoft
//! does not document it; https://www.ntcore.com/files/richsign.htm does.

ghost use Rattle.std.specs.Prelude.{◌≡◌};
ghost use Rattle.pe_core.specs.Refusals.{answer_of};
ghost use Rattle.pe_directories.specs.RichHeader.{rich_view};
ghost use Rattle.calls_headers.specs.Headers.{rich_at, rich_entry_at, rich_reported};
ghost use Rattle.calls_base.specs.Walks.{next_of, walk_of};

use calls_base::ranges::Range;
use calls_base::walks::next_entry;
use pe_core::{DosHeader, Result};
use pe_directories::{RichEntry, RichHeader as Header};

/// Bytes from the start of a Rich header to its entries.
const SIZE_BEFORE_ENTRIES: u64 = 16;

/// The size of an entry in bytes.
const SIZE_OF_ENTRY: usize = 8;

/// The Rich header of an image.
#[repr(C)]
#[derive(Clone, Copy)]
pub struct RichHeader {
    /// The entries as they are in the file, 8 bytes each, XORed with the key; a walk through them.
    pub entries: Range,
    /// How many entries there are.
    pub count: u64,
    /// What the header is XORed with.
    pub key: u32,
    /// The checksum of the DOS header, the DOS stub and the entries, which the linker takes as the key.
    pub checksum: u32,
    /// 1 where the key is the checksum, so that nobody changed any of them; else 0.
    pub key_is_checksum: u32,
    /// 0.
    pub spare: u32,
}

fn rich_reported(header: &Header) -> RichHeader
    ensures { result ≡ rich_reported (rich_view header.now) }
{
    let checksum = header.checksum();
    RichHeader {
        entries: Range {
            offset: header.before.len() as u64 + SIZE_BEFORE_ENTRIES,
            length: header.entry_bytes.len() as u64,
        },
        count: header.len() as u64,
        key: header.key,
        checksum,
        key_is_checksum: if header.key == checksum { 1 } else { 0 },
        spare: 0,
    }
}

pub fn rich_at(bytes: &[u8]) -> Result<Option<RichHeader>>
    ensures { answer_of result ≡ rich_at bytes.now }
{
    let dos_header = DosHeader::parse(bytes)?;
    let end = bytes.len().min(dos_header.pe_pointer as usize);
    match Header::find(&bytes[..end]) {
        Some(header) => Ok(Some(rich_reported(&header))),
        None => Ok(None),
    }
}

/// The next entry of a walk. It is over after an error.
pub fn next_rich_entry(bytes: &[u8], key: u32, walk: &mut Range) -> Result<Option<RichEntry>>
    ensures entry { answer_of result ≡ next_of (rich_entry_at key) 8 bytes.now walk.old }
    ensures walk { walk.new ≡ walk_of 8 bytes.now walk.old }
{
    match next_entry(bytes, walk, SIZE_OF_ENTRY)? {
        Some(entry_bytes) => {
            let header = Header {
                key,
                before: &[],
                entry_bytes,
            };
            Ok(header.entry(0))
        }
        None => Ok(None),
    }
}
