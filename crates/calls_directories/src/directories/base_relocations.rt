//! Base relocations: what to change in an image that is not at its preferred base. They stand in blocks, one for each page.
//! https://learn.microsoft.com/windows/win32/debug/pe-format#the-reloc-section-image-only

ghost use Rattle.std.specs.Prelude.{◌≡◌};
ghost use Rattle.pe_directories.specs.BaseRelocations.{first_block, first_relocation};
ghost use Rattle.pe_directories.specs.DirectoryRefusals.{directory_answer};
ghost use Rattle.calls_base.specs.Directories.{first_in, left_after, step_of};
ghost use Rattle.calls_directories.specs.DirectoryRuns.{block_reported, relocation_reported, StepsBlocks, StepsRelocations};
ghost use Rattle.calls_base.specs.DirectoryResults.{directory_number};
ghost use Rattle.calls_base.specs.Lists.{Numbered};

use calls_base::directories::{Result, range_left};
use calls_base::lists::Steps;
use calls_base::ranges::{NO_BYTES, Range, slice_of};
use calls_base::results::number_of_directory;
use pe_directories::{RelocationBlock as Block, RelocationBlocks};

/// A block of base relocations.
#[repr(C)]
#[derive(Clone, Copy)]
pub struct RelocationBlock {
    /// The entries, 2 bytes each; a walk through the relocations of the block.
    pub entries: Range,
    /// The RVA of the page that the relocations count from.
    pub page_rva: u32,
    /// 0.
    pub spare: u32,
}

/// A base relocation.
#[repr(C)]
#[derive(Clone, Copy)]
pub struct Relocation {
    /// The RVA of what to change. In a hostile block it may pass 32 bits.
    pub rva: u64,
    /// The type, `IMAGE_REL_BASED_*` of winnt.h, below 16.
    pub kind: u32,
    /// The low 16 bits of the number that an `IMAGE_REL_BASED_HIGHADJ` (4) changes; 0 of another type.
    pub argument: u32,
}

/// The next block of a walk. It is over after an error.
pub fn next_block(bytes: &[u8], walk: &mut Range) -> Result<Option<RelocationBlock>>
    ensures block { directory_answer (λ x. x) result
        ≡ step_of (block_reported walk.old) (first_in first_block bytes.now walk.old) }
    ensures walk { walk.new ≡ left_after walk.old (first_in first_block bytes.now walk.old) }
{
    let range = *walk;
    *walk = NO_BYTES;
    let mut blocks = RelocationBlocks::new(slice_of(bytes, &range)?);
    let Some(block) = blocks.next() else {
        *walk = range;
        return Ok(None);
    };
    let block = block?;
    *walk = range_left(range, blocks.rest());
    Ok(Some(RelocationBlock {
        entries: Range {
            offset: range.offset + 8,
            length: block.entries.len() as u64,
        },
        page_rva: block.page_rva,
        spare: 0,
    }))
}

/// The next relocation of a walk through the entries of a page. It is over after an error.
pub fn next_relocation(bytes: &[u8], page_rva: u32, walk: &mut Range) -> Result<Option<Relocation>>
    ensures relocation { directory_answer (λ x. x) result
        ≡ step_of relocation_reported (first_in (first_relocation page_rva) bytes.now walk.old) }
    ensures walk { walk.new
        ≡ left_after walk.old (first_in (first_relocation page_rva) bytes.now walk.old) }
{
    let range = *walk;
    *walk = NO_BYTES;
    let entries = slice_of(bytes, &range)?;
    let mut relocations = Block { page_rva, entries }.relocations();
    let Some(relocation) = relocations.next() else {
        *walk = range;
        return Ok(None);
    };
    let relocation = relocation?;
    *walk = range_left(range, relocations.rest());
    Ok(Some(Relocation {
        rva: relocation.rva as u64,
        kind: u32::from(relocation.kind),
        argument: u32::from(relocation.argument.unwrap_or(0)),
    }))
}

/// Steps over the blocks of base relocations.
#[derive(Clone, Copy)]
pub struct Blocks<'a> {
    pub bytes: &'a [u8],
}

impl<'a> Steps<Range, RelocationBlock> for Blocks<'a> {
    ghost steps = { λ s. Numbered directory_number (StepsBlocks s.bytes.now) };

    fn step(&self, walk: &mut Range) -> std::result::Result<Option<RelocationBlock>, u32> {
        match next_block(self.bytes, walk) {
            Ok(block) => Ok(block),
            Err(error) => Err(number_of_directory(&error)),
        }
    }
}

/// Steps over the relocations of a block.
#[derive(Clone, Copy)]
pub struct Relocations<'a> {
    pub bytes: &'a [u8],
    pub page_rva: u32,
}

impl<'a> Steps<Range, Relocation> for Relocations<'a> {
    ghost steps = { λ s. Numbered directory_number (StepsRelocations s.page_rva s.bytes.now) };

    fn step(&self, walk: &mut Range) -> std::result::Result<Option<Relocation>, u32> {
        match next_relocation(self.bytes, self.page_rva, walk) {
            Ok(relocation) => Ok(relocation),
            Err(error) => Err(number_of_directory(&error)),
        }
    }
}
