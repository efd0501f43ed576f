//! Laws of the blocks of version information.

ghost use Rattle.std.specs.Prelude.{◌≡◌, ◌↔◌, ℕ, true, List, Option, Some, None, Result, Err, map, IsTrue};
ghost use Rattle.std.specs.Iterator.{Drains};
ghost use Rattle.pe_resource.specs.declared.version_block.Translation.{Translation};
ghost use Rattle.pe_resource.specs.declared.version_block.VersionBlock.{VersionBlock};
ghost use Rattle.pe_resource.specs.declared.version_block.VersionBlocks.{VersionBlocks};
ghost use Rattle.pe_resource.specs.declared.version_block_error.VersionBlockError.{VersionBlockError};
ghost use Rattle.pe_resource.specs.VersionBlocks.{block_answer, block_kind_of, block_view, blocks, ends_blocks, first_block, rest_of, then_blocks};

use crate::version_block::{Translation, VersionBlock, VersionBlocks};

/// An iterator over blocks returns the blocks of its bytes, all of them, and they are the first one and the blocks of the
/// bytes after it. It is over after `None` and after an error, but for a key without its end, which costs one block.
pub fn version_blocks_have_one_reading()
    ensures items { (s : VersionBlocks) (xs : List (Result VersionBlock VersionBlockError)) →
        Drains ⟦<VersionBlocks<'static> as Iterator>⟧.next_gives s xs →
        map (block_answer block_view) xs ≡ blocks (rest_of s) }
    ensures first { (b : List ℕ) → blocks b ≡ then_blocks blocks (first_block b) }
    ensures refusal { (s t u : VersionBlocks) (e : VersionBlockError)
        (r : Option (Result VersionBlock VersionBlockError)) →
        ends_blocks (block_kind_of e) ≡ true →
        ⟦<VersionBlocks<'static> as Iterator>⟧.next_gives s (Some (Err e)) t →
        ⟦<VersionBlocks<'static> as Iterator>⟧.next_gives t r u → r ≡ None }
    ensures none { (s t u : VersionBlocks) (r : Option (Result VersionBlock VersionBlockError)) →
        ⟦<VersionBlocks<'static> as Iterator>⟧.next_gives s None t →
        ⟦<VersionBlocks<'static> as Iterator>⟧.next_gives t r u → r ≡ None }
{}

/// Two blocks are equal exactly if their numbers and the bytes of their parts are; two languages with code pages exactly if
/// both numbers are.
pub fn equal_blocks_have_equal_parts()
    ensures block { (x y : VersionBlock) →
        IsTrue (⟦<VersionBlock<'static> as PartialEq>⟧.eq x y) ↔ (block_view x ≡ block_view y) }
    ensures translation { (x y : Translation) →
        IsTrue (⟦<Translation as PartialEq>⟧.eq x y) ↔ (x ≡ y) }
{}

/// A clone equals its original, and a default language and code page are zeros.
pub fn clones_of_blocks_are_their_originals()
    ensures block { (x y : VersionBlock) →
        ⟦<VersionBlock<'static> as Clone>⟧.is_clone x y → y ≡ x }
    ensures blocks { (x y : VersionBlocks) →
        ⟦<VersionBlocks<'static> as Clone>⟧.is_clone x y → y ≡ x }
    ensures translation { (x y : Translation) →
        ⟦<Translation as Clone>⟧.is_clone x y → y ≡ x }
    ensures zeros { (x : Translation) → ⟦<Translation as Default>⟧.is_default x →
        x ≡ record { language = 0; code_page = 0 } }
{}
