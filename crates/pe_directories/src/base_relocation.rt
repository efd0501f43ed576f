//! Base relocations, directory 5
//! ([layout](https://learn.microsoft.com/windows/win32/debug/pe-format#the-reloc-section-image-only)): what to change if
//! the image is not loaded at its image base. The directory is blocks, one for each page of 4096 bytes that has
//! something to change. A block is the RVA of its page, its size in bytes, and entries of 2 bytes: the type in the high
//! 4 bits, the offset in the page in the low 12.
//!
//! A caller walks through the blocks, and through the relocations of each. Microsoft's page asks for blocks at multiples of
//! 4 bytes; that is not tested, and llvm-readobj does not test it either. A block of zeros, page and size, ends the list, as
//! some tools write it. Another size below 8 or an odd one is refused, since the next block would start inside of this
//! block's header or of an entry.

ghost use Rattle.std.specs.Prelude.{◌≡◌, Some};
ghost use Rattle.std.specs.Iterator.{at_most};
ghost use Rattle.pe_directories.specs.DirectoryRefusals.{DirectoryReturns};
ghost use Rattle.pe_directories.specs.Walks.{ReturnsFirst, LeavesFewer, Steps, most_left, rest_of};
ghost use Rattle.pe_directories.specs.BaseRelocations.{block_view, first_block, blocks_left, first_relocation, relocations_left, page_of};
ghost use Rattle.pe_directories.specs.ImageParts.{image_view, walk_table};

use crate::error::{DirectoryError, Result};
use crate::image_bytes::ImageBytes;
use pe_core::{DataDirectory, read_u16, read_u32, require_bytes};

/// No relocation: it fills up a block to a multiple of 4 bytes.
pub const IMAGE_REL_BASED_ABSOLUTE: u8 = 0;

/// Add the high 16 bits of the difference to the 16 bits at the RVA.
pub const IMAGE_REL_BASED_HIGH: u8 = 1;

/// Add the low 16 bits of the difference to the 16 bits at the RVA.
pub const IMAGE_REL_BASED_LOW: u8 = 2;

/// Add the difference to the 32 bits at the RVA.
pub const IMAGE_REL_BASED_HIGHLOW: u8 = 3;

/// Add the high 16 bits of the difference to the 16 bits at the RVA, which are the high half of a number of 32 bits; its
/// low half is the argument.
pub const IMAGE_REL_BASED_HIGHADJ: u8 = 4;

/// Add the difference to the 64 bits at the RVA.
pub const IMAGE_REL_BASED_DIR64: u8 = 10;

/// The size of a block's header in bytes.
const SIZE_OF_BLOCK_HEADER: usize = 8;

/// The size of an entry in bytes.
const SIZE_OF_ENTRY: usize = 2;

/// A block of base relocations (`IMAGE_BASE_RELOCATION`).
#[derive(Clone, Copy)]
pub struct RelocationBlock<'a> {
    /// The RVA of the page.
    pub page_rva: u32,
    /// The entries, 2 bytes each.
    pub entries: &'a [u8],
}

impl<'a> RelocationBlock<'a> {
    /// The relocations of the block.
    pub fn relocations(&self) -> BaseRelocations<'a>
        ensures left { relocations_left result ≡ Some self.now.entries.now }
        ensures page { page_of result ≡ self.now.page_rva }
    {
        BaseRelocations {
            page_rva: self.page_rva,
            left: Some(self.entries),
        }
    }
}

/// The block at the start of the bytes, and the bytes after it. `None` if there are no bytes, and if its page and its size are
/// 0. Errors, in order: `Image` with `Short` if its header is truncated; `BlockSize`; `BlockTruncated`.
#[tactic(auto, unfolding(crate::specs::BaseRelocations::first_block, crate::specs::BaseRelocations::block_of))]
fn first_block(bytes: &[u8]) -> Option<Result<(RelocationBlock<'_>, &[u8])>>
    ensures first { ReturnsFirst block_view (λ r. r.now) (first_block bytes.now) result }
    ensures fewer { LeavesFewer (λ r. r.now) bytes.now result }
{
    if bytes.is_empty() {
        return None;
    }
    if let Err(error) = require_bytes(bytes, 0, SIZE_OF_BLOCK_HEADER) {
        return Some(Err(DirectoryError::Image(error)));
    }
    let page_rva = read_u32(bytes, 0);
    let size = read_u32(bytes, 4);
    if page_rva == 0 && size == 0 {
        return None;
    }
    if size < 8 || size % 2 != 0 {
        return Some(Err(DirectoryError::BlockSize(size)));
    }
    let end = size as usize;
    if bytes.len() < end {
        return Some(Err(DirectoryError::BlockTruncated {
            size,
            length: bytes.len(),
        }));
    }
    let block = RelocationBlock {
        page_rva,
        entries: &bytes[SIZE_OF_BLOCK_HEADER..end],
    };
    Some(Ok((block, &bytes[end..])))
}

/// The blocks of base relocations that are left, up to one of zeros. It is over after an error.
#[derive(Clone, Copy)]
pub struct RelocationBlocks<'a> {
    left: Option<&'a [u8]>,
}

impl<'a> RelocationBlocks<'a> {
    /// The blocks at the RVA of `directory`, in as many bytes as its size says. Errors, in order: `Image` with `Unmapped`;
    /// `Image` with `Short`.
    pub fn parse(image: &ImageBytes<'a>, directory: DataDirectory) -> Result<RelocationBlocks<'a>>
        ensures { DirectoryReturns blocks_left result (walk_table (image_view image.now) directory) }
    {
        Ok(RelocationBlocks::new(image.table(directory)?))
    }

    /// The blocks of these bytes, for instance those of `RelocationData` of pe_core.
    pub fn new(bytes: &'a [u8]) -> RelocationBlocks<'a>
        ensures { blocks_left result ≡ Some bytes.entry.now }
    {
        RelocationBlocks { left: Some(bytes) }
    }

    /// The bytes that are left: those of the next item are at their start. Empty if the walk is over.
    pub fn rest(&self) -> &'a [u8]
        ensures { result.now ≡ rest_of (blocks_left self.now) }
    {
        self.left.unwrap_or_default()
    }
}

impl<'a> Iterator for RelocationBlocks<'a> {
    type Item = Result<RelocationBlock<'a>>;

    ghost next_gives = { λ s r t. Steps block_view first_block (blocks_left s) r (blocks_left t) };

    ghost remaining = { λ s. at_most (most_left (blocks_left s)) };

    fn next(&mut self) -> Option<Result<RelocationBlock<'a>>> {
        let bytes = self.left?;
        self.left = None;
        match first_block(bytes)? {
            Ok((block, rest)) => {
                self.left = Some(rest);
                Some(Ok(block))
            }
            Err(error) => Some(Err(error)),
        }
    }
}

/// One base relocation.
#[derive(Clone, Copy)]
pub struct BaseRelocation {
    /// The type, `IMAGE_REL_BASED_*`, below 16. What types 5, 7, 8 and 9 mean depends on the machine.
    pub kind: u8,
    /// The RVA of what to change: that of the page plus the offset. In a hostile block it may pass 32 bits.
    pub rva: usize,
    /// The low 16 bits of the number that an `IMAGE_REL_BASED_HIGHADJ` changes, from the entry after it.
    pub argument: Option<u16>,
}

/// The relocation at the start of the entries of a page, and the bytes after it. `None` if there are no bytes. Errors, in
/// order: `Image` with `Short` if there is one byte; `NoArgument`.
#[tactic(auto, unfolding(crate::specs::BaseRelocations::first_relocation, crate::specs::BaseRelocations::relocation_of))]
fn first_relocation(page_rva: u32, bytes: &[u8]) -> Option<Result<(BaseRelocation, &[u8])>>
    ensures first { ReturnsFirst (λ x. x) (λ r. r.now)
        (first_relocation page_rva bytes.now) result }
    ensures fewer { LeavesFewer (λ r. r.now) bytes.now result }
{
    if bytes.is_empty() {
        return None;
    }
    if let Err(error) = require_bytes(bytes, 0, SIZE_OF_ENTRY) {
        return Some(Err(DirectoryError::Image(error)));
    }
    let entry = read_u16(bytes, 0);
    let mut relocation = BaseRelocation {
        kind: (entry / 4096) as u8,
        rva: page_rva as usize + (entry % 4096) as usize,
        argument: None,
    };
    if relocation.kind != IMAGE_REL_BASED_HIGHADJ {
        return Some(Ok((relocation, &bytes[SIZE_OF_ENTRY..])));
    }
    if bytes.len() < 2 * SIZE_OF_ENTRY {
        return Some(Err(DirectoryError::NoArgument(relocation.rva)));
    }
    relocation.argument = Some(read_u16(bytes, SIZE_OF_ENTRY));
    Some(Ok((relocation, &bytes[2 * SIZE_OF_ENTRY..])))
}

/// The relocations of a block that are left. Those of type `IMAGE_REL_BASED_ABSOLUTE` are items too. It is over after
/// an error.
#[derive(Clone, Copy)]
pub struct BaseRelocations<'a> {
    page_rva: u32,
    left: Option<&'a [u8]>,
}

impl<'a> BaseRelocations<'a> {
    /// The bytes that are left: those of the next item are at their start. Empty if the walk is over.
    pub fn rest(&self) -> &'a [u8]
        ensures { result.now ≡ rest_of (relocations_left self.now) }
    {
        self.left.unwrap_or_default()
    }
}

impl<'a> Iterator for BaseRelocations<'a> {
    type Item = Result<BaseRelocation>;

    ghost next_gives = { λ s r t.
        Steps (λ x. x) (first_relocation (page_of s)) (relocations_left s) r (relocations_left t) × (page_of t ≡ page_of s) };

    ghost remaining = { λ s. at_most (most_left (relocations_left s)) };

    fn next(&mut self) -> Option<Result<BaseRelocation>> {
        let bytes = self.left?;
        self.left = None;
        match first_relocation(self.page_rva, bytes)? {
            Ok((relocation, rest)) => {
                self.left = Some(rest);
                Some(Ok(relocation))
            }
            Err(error) => Some(Err(error)),
        }
    }
}
