//! Base relocations applied to an image as loaded, which then is as a loader has it at another base
//! ([types](https://learn.microsoft.com/windows/win32/debug/pe-format#base-relocation-types)). Each names a number of the image, to
//! which the difference of the two bases is added. All of them are tested before the first number changes.

ghost use Rattle.std.specs.Prelude.{◌≡◌, List, Ok, true, length};
ghost use Rattle.pe_directories.specs.BaseRelocations.{block_view};
ghost use Rattle.pe_directories.specs.DirectoryRefusals.{DirectoryReturns};
ghost use Rattle.pe_directories.specs.Relocated.{ChangesTo, Tested, added_to, all_moved, base_words, block_words, blocks_moved, moved, relocated, stands_in, table_words, width_of, word_of};
ghost use Rattle.pe_directories.specs.declared.relocating.Word.{Word};

use crate::base_relocation::{
    BaseRelocation, IMAGE_REL_BASED_ABSOLUTE, IMAGE_REL_BASED_DIR64, IMAGE_REL_BASED_HIGH,
    IMAGE_REL_BASED_HIGHLOW, IMAGE_REL_BASED_LOW, RelocationBlock, RelocationBlocks,
};
use crate::error::{DirectoryError, Result};
use pe_core::{read_u16, read_u32, read_u64, set_u16, set_u32, set_u64};

/// A number of an image that a relocation changes.
#[derive(Clone, Copy)]
struct Word {
    rva: usize,
    /// In bytes: 0, 2, 4 or 8.
    width: usize,
    /// Whether the high 16 bits of the difference are added to it, not the low ones.
    is_high: bool,
}

/// How many bytes a relocation of a type changes. `None` where that depends on the machine.
fn width_of(kind: u8) -> Option<usize>
    ensures { result ≡ width_of kind }
{
    match kind {
        IMAGE_REL_BASED_ABSOLUTE => Some(0),
        IMAGE_REL_BASED_HIGH | IMAGE_REL_BASED_LOW => Some(2),
        IMAGE_REL_BASED_HIGHLOW => Some(4),
        IMAGE_REL_BASED_DIR64 => Some(8),
        _ => None,
    }
}

/// The word of a relocation in an image of `size` bytes. Errors: `RelocationKind`; `RelocationOutside`.
fn word_of(relocation: &BaseRelocation, size: usize) -> Result<Word>
    ensures { DirectoryReturns (λ w. w) result (word_of size relocation.now) }
{
    let Some(width) = width_of(relocation.kind) else {
        return Err(DirectoryError::RelocationKind {
            kind: relocation.kind,
            rva: relocation.rva,
        });
    };
    if width != 0 && (size < width || size - width < relocation.rva) {
        return Err(DirectoryError::RelocationOutside(relocation.rva));
    }
    Ok(Word {
        rva: relocation.rva,
        width,
        is_high: relocation.kind == IMAGE_REL_BASED_HIGH,
    })
}

/// What is added to a word.
fn added_to(word: &Word, difference: u64) -> u64
    ensures { result ≡ added_to word.now difference }
{
    if word.is_high {
        difference >> 16
    } else {
        difference
    }
}

/// Adds the difference to a word.
#[tactic(auto, unfolding(crate::specs::Relocated::moved, pe_core::specs::Bytes::bytes_of, pe_core::specs::Bytes::splice, pe_core::specs::Bytes::le))]
fn move_word(image: &mut [u8], word: &Word, difference: u64)
    requires { stands_in (length image.old) word.now ≡ true }
    ensures { image.new ≡ moved difference word.now image.old }
{
    let rva = word.rva;
    let added = added_to(word, difference);
    if word.width == 2 {
        let number = read_u16(image, rva).wrapping_add((added % (1 << 16)) as u16);
        set_u16(image, rva, number);
    } else if word.width == 4 {
        let number = read_u32(image, rva).wrapping_add((added % (1 << 32)) as u32);
        set_u32(image, rva, number);
    } else if word.width == 8 {
        let number = read_u64(image, rva).wrapping_add(added);
        set_u64(image, rva, number);
    }
}

/// Tests the relocations of a block in an image of `size` bytes. Errors: those of its items; those of `word_of`.
fn check_block(block: &RelocationBlock<'_>, size: usize) -> Result<()>
    ensures { Tested result (block_words size (block_view block.now)) }
{
    let mut relocations = block.relocations();
    while let Some(item) = relocations.next() {
        word_of(&item?, size)?;
    }
    Ok(())
}

/// Tests the relocations of all blocks of a table.
fn check_table(table: &[u8], size: usize) -> Result<()>
    ensures { Tested result (table_words size table.now) }
{
    let mut blocks = RelocationBlocks::new(table);
    while let Some(item) = blocks.next() {
        check_block(&item?, size)?;
    }
    Ok(())
}

/// Tests the relocation of the image base.
fn check_base(base: Option<BaseRelocation>, size: usize) -> Result<()>
    ensures { Tested result (base_words size base) }
{
    if let Some(relocation) = base {
        word_of(&relocation, size)?;
    }
    Ok(())
}

/// Adds the difference to the words of a block, where none is refused.
fn move_block(image: &mut [u8], block: &RelocationBlock<'_>, difference: u64)
    ensures moved { (words : List Word) →
        block_words (length image.old) (block_view block.now) ≡ Ok words →
        image.new ≡ all_moved difference words image.old }
    ensures long { length image.new ≡ length image.old }
{
    let size = image.len();
    let mut relocations = block.relocations();
    while let Some(item) = relocations.next() {
        match item {
            Ok(relocation) => match word_of(&relocation, size) {
                Ok(word) => move_word(image, &word, difference),
                Err(_) => return,
            },
            Err(_) => return,
        }
    }
}

/// Adds the difference to the words of all blocks of a table, where none is refused.
fn move_table(image: &mut [u8], table: &[u8], difference: u64)
    ensures moved { (blocks : List (List Word)) →
        table_words (length image.old) table.now ≡ Ok blocks →
        image.new ≡ blocks_moved difference blocks image.old }
    ensures long { length image.new ≡ length image.old }
{
    let mut blocks = RelocationBlocks::new(table);
    while let Some(item) = blocks.next() {
        match item {
            Ok(block) => move_block(image, &block, difference),
            Err(_) => return,
        }
    }
}

/// Adds the difference to the image base, where its relocation is not refused.
fn move_base(image: &mut [u8], base: Option<BaseRelocation>, difference: u64)
    ensures moved { (words : List Word) → base_words (length image.old) base ≡ Ok words →
        image.new ≡ all_moved difference words image.old }
    ensures long { length image.new ≡ length image.old }
{
    if let Some(relocation) = base {
        if let Ok(word) = word_of(&relocation, image.len()) {
            move_word(image, &word, difference);
        }
    }
}

/// Relocates an image as loaded: adds `difference`, the new base less the one that it has, modulo 2^64, to the number of each
/// relocation of `table`, the bytes of directory 5. `base` is the field of the header that has the image base, as a relocation, if
/// it is to change too; it comes first. The table is not read from `image`, so that relocations of it make no difference.
///
/// Errors, in the order of the relocations: those of the walks through blocks and relocations; `RelocationKind`;
/// `RelocationOutside`. After an error the image is unchanged.
pub fn relocate(
    image: &mut [u8],
    base: Option<BaseRelocation>,
    table: &[u8],
    difference: u64,
) -> Result<()>
    ensures { ChangesTo result
        (relocated difference base table.now image.old) image.old image.new }
{
    check_base(base, image.len())?;
    check_table(table, image.len())?;
    move_base(image, base, difference);
    move_table(image, table, difference);
    Ok(())
}
