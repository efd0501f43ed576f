//! What the contracts say together, over whole walks.

pub mod constants;

ghost use Rattle.std.specs.Prelude.{◌≡◌, ◌+◌, ◌<◌, ◌≤◌, ℕ, List, Bool, Option, Some, Ok, get_or, length, map, Result};
ghost use Rattle.pe_core.specs.Bytes.{AreBytes, range};
ghost use Rattle.std.specs.Iterator.{Drains};
ghost use Rattle.pe_directories.specs.DirectoryRefusals.{directory_answer};
ghost use Rattle.pe_directories.specs.Walks.{HasOneList, ItemsLeft, all_items};
ghost use Rattle.pe_directories.specs.BaseRelocations.{block_view, first_block, blocks_left, first_relocation, relocations_left, page_of};
ghost use Rattle.pe_directories.specs.BoundImports.{bound_view, first_bound_import, bound_imports_left};
ghost use Rattle.pe_directories.specs.Clr.{stream_view, first_stream, streams_left};
ghost use Rattle.pe_directories.specs.DelayImports.{first_delay_import, delay_imports_left};
ghost use Rattle.pe_directories.specs.GuardTables.{guarded_view, first_guarded, flag_size_of, guarded_left};
ghost use Rattle.pe_directories.specs.LoadedImages.{loaded};
ghost use Rattle.pe_directories.specs.DirectoryRefusals.{DirectoryRefusal};
ghost use Rattle.pe_directories.specs.Relocated.{AllPassBy, AllStand, IsOutside, all_moved, relocated, words_of};
ghost use Rattle.pe_directories.specs.declared.relocating.Word.{Word};
ghost use Rattle.pe_directories.specs.VaTables.{first_va, vas_left, vas_are_64};
ghost use Rattle.pe_directories.specs.declared.base_relocation.RelocationBlock.{RelocationBlock};
ghost use Rattle.pe_directories.specs.declared.base_relocation.RelocationBlocks.{RelocationBlocks};
ghost use Rattle.pe_directories.specs.declared.base_relocation.BaseRelocation.{BaseRelocation};
ghost use Rattle.pe_directories.specs.declared.base_relocation.BaseRelocations.{BaseRelocations};
ghost use Rattle.pe_directories.specs.declared.bound_import.BoundImport.{BoundImport};
ghost use Rattle.pe_directories.specs.declared.bound_import.BoundImports.{BoundImports};
ghost use Rattle.pe_directories.specs.declared.clr.ClrStream.{ClrStream};
ghost use Rattle.pe_directories.specs.declared.clr.ClrStreams.{ClrStreams};
ghost use Rattle.pe_directories.specs.declared.delay_import.DelayImport.{DelayImport};
ghost use Rattle.pe_directories.specs.declared.delay_import.DelayImports.{DelayImports};
ghost use Rattle.pe_directories.specs.declared.guard_table.GuardEntry.{GuardEntry};
ghost use Rattle.pe_directories.specs.declared.guard_table.GuardTable.{GuardTable};
ghost use Rattle.pe_directories.specs.declared.va_table.VaTable.{VaTable};
ghost use Rattle.pe_directories.specs.declared.error.DirectoryError.{DirectoryError};

use crate::base_relocation::{BaseRelocations, RelocationBlocks};
use crate::bound_import::BoundImports;
use crate::clr::ClrStreams;
use crate::delay_import::DelayImports;
use crate::guard_table::GuardTable;
use crate::va_table::VaTable;

/// The items of a walk through base relocations are the blocks of its bytes, and the relocations of a block's entries.
/// Every byte string has one list of either.
pub fn relocation_walks_return_the_list()
    ensures blocks { (s : RelocationBlocks) (xs : List (Result RelocationBlock DirectoryError)) →
        Drains ⟦<RelocationBlocks<'static> as Iterator>⟧.next_gives s xs →
        ItemsLeft first_block (blocks_left s) (map (directory_answer block_view) xs) }
    ensures block { HasOneList first_block }
    ensures relocations { (s : BaseRelocations) (xs : List (Result BaseRelocation DirectoryError)) →
        Drains ⟦<BaseRelocations<'static> as Iterator>⟧.next_gives s xs →
        ItemsLeft (first_relocation (page_of s)) (relocations_left s)
        (map (directory_answer (λ x. x)) xs) }
    ensures relocation { (page : ℕ) → HasOneList (first_relocation page) }
{}

/// The items of a walk through TLS callbacks, or through what is imported of a DLL, are the numbers of its bytes up to the
/// first zero. Every byte string has one list of them.
pub fn va_tables_return_the_list()
    ensures numbers { (s : VaTable) (xs : List (Result ℕ DirectoryError)) →
        Drains ⟦<VaTable<'static> as Iterator>⟧.next_gives s xs →
        ItemsLeft (first_va (vas_are_64 s)) (vas_left s)
        (map (directory_answer (λ x. x)) xs) }
    ensures list { (is_64 : Bool) → HasOneList (first_va is_64) }
{}

/// The items of a walk through metadata streams are those of its headers, as many as are counted. Every byte string has one
/// list of them for each count.
#[tactic(auto, using(crate::proofs::DrainedWalks::streams, crate::proofs::DrainedWalks::one_of_streams))]
pub fn stream_walks_return_the_list()
    ensures streams { (s : ClrStreams) (xs : List (Result ClrStream DirectoryError)) →
        Drains ⟦<ClrStreams<'static> as Iterator>⟧.next_gives s xs →
        ItemsLeft first_stream (streams_left s) (map (directory_answer stream_view) xs) }
    ensures list { HasOneList first_stream }
{}

/// The items of a walk through delay imports are the entries of its bytes up to one without a name. Every byte string has one
/// list of them.
pub fn delay_import_walks_return_the_list()
    ensures entries { (s : DelayImports) (xs : List (Result DelayImport DirectoryError)) →
        Drains ⟦<DelayImports<'static> as Iterator>⟧.next_gives s xs →
        ItemsLeft first_delay_import (delay_imports_left s) (map (directory_answer (λ x. x)) xs) }
    ensures list { HasOneList first_delay_import }
{}

/// The lists of delay imports are read from what the walks return one by one: from the numbers of a table, each as `imported`
/// reads it, and from the entries of a directory.
pub fn delay_import_lists_are_of_whole_walks()
    ensures numbers { (s : VaTable) (xs : List (Result ℕ DirectoryError)) →
        Drains ⟦<VaTable<'static> as Iterator>⟧.next_gives s xs →
        all_items (first_va (vas_are_64 s)) (vas_left s) ≡ map (directory_answer (λ x. x)) xs }
    ensures entries { (s : DelayImports) (xs : List (Result DelayImport DirectoryError)) →
        Drains ⟦<DelayImports<'static> as Iterator>⟧.next_gives s xs →
        all_items first_delay_import (delay_imports_left s) ≡ map (directory_answer (λ x. x)) xs }
{}

/// The items of a walk through bound imports are the entries of its bytes up to one without a name. Every byte string has one
/// list of them.
#[tactic(auto, using(crate::proofs::DrainedWalks::bound_imports, crate::proofs::DrainedWalks::one_of_bound_imports))]
pub fn bound_import_walks_return_the_list()
    ensures imports { (s : BoundImports) (xs : List (Result BoundImport DirectoryError)) →
        Drains ⟦<BoundImports<'static> as Iterator>⟧.next_gives s xs →
        ItemsLeft first_bound_import (bound_imports_left s) (map (directory_answer bound_view) xs) }
    ensures list { HasOneList first_bound_import }
{}

/// The items of a walk through a table of a load configuration are as many entries of its bytes as the load configuration says, or
/// those before the bytes end and then an error. Every byte string has one list of them, for every number of entries and of bytes
/// of flags.
#[tactic(auto, using(crate::proofs::DrainedWalks::guarded, crate::proofs::DrainedWalks::one_of_guarded))]
pub fn guard_walks_return_the_list()
    ensures entries { (s : GuardTable) (xs : List (Result GuardEntry DirectoryError)) →
        Drains ⟦<GuardTable<'static> as Iterator>⟧.next_gives s xs →
        ItemsLeft (first_guarded (flag_size_of s)) (guarded_left s)
        (map (directory_answer guarded_view) xs) }
    ensures list { (n : ℕ) → HasOneList (first_guarded n) }
{}

/// What is read of an image as a loader lays it out, where an RVA is its own offset, is what is read of the file: the byte at each
/// RVA that is mapped, and the bytes of each part whose RVAs are mapped one after the other, as those of a directory in one section.
#[tactic(auto, using(crate::proofs::LoadedReads::byte_is, crate::proofs::LoadedReads::range_is))]
pub fn loaded_images_are_read_as_files()
    ensures bytes { (to_offset : ℕ → Option ℕ) (b : List ℕ) (headers size rva p : ℕ) →
        rva < size → to_offset rva ≡ Some p →
        get_or (loaded to_offset b headers size) rva 0 ≡ get_or b p 0 }
    ensures ranges { (to_offset : ℕ → Option ℕ) (b : List ℕ) (headers size rva p n : ℕ) →
        ((k : ℕ) → k < n → to_offset (rva + k) ≡ Some (p + k)) →
        p + n ≤ length b → rva + n ≤ size →
        range (loaded to_offset b headers size) rva n ≡ range b p n }
{}

/// Base relocations change the numbers that they name and no other byte, and a difference of 0 changes none.
#[tactic(auto, using(crate::proofs::MovedWords::none_change, crate::proofs::MovedWords::others_stay))]
pub fn relocations_change_their_words_alone()
    ensures others { (difference p : ℕ) (words : List Word) (b : List ℕ) →
        AllPassBy (length b) p words →
        get_or (all_moved difference words b) p 0 ≡ get_or b p 0 }
    ensures none { (words : List Word) (b : List ℕ) →
        AreBytes b → AllStand (length b) words → all_moved 0 words b ≡ b }
{}

/// What `relocate` makes of an image, by all blocks of a table and the relocation of the image base, is as long as it was and has
/// the bytes that it had, but those of the numbers that these name.
#[tactic(auto, using(crate::proofs::OtherBytes::others_kept, crate::proofs::OtherBytes::same_length))]
pub fn relocated_images_keep_their_other_bytes()
    ensures long { (difference : ℕ) (base : Option BaseRelocation) (table b image : List ℕ) →
        relocated difference base table b ≡ Ok image → length image ≡ length b }
    ensures others { (difference p : ℕ) (base : Option BaseRelocation) (table b image : List ℕ) (words : List (List Word)) →
        words_of (length b) base table ≡ Ok words → IsOutside p words →
        relocated difference base table b ≡ Ok image → get_or image p 0 ≡ get_or b p 0 }
{}
