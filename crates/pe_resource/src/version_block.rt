//! Version information as the tree of blocks that it is. Each block has its length, with all blocks that it contains, the
//! length and the type of its value, a key in UTF-16, a value, and the blocks that it contains, which are its children.
//! Value and children start at multiples of four bytes. Layout:
//! <https://learn.microsoft.com/windows/win32/menurc/vs-versioninfo>.
//!
//! The tree has four levels: the block `VS_VERSION_INFO`, whose value is the fixed file information; in it `StringFileInfo`
//! and `VarFileInfo`; in these a string table for each language, and `Translation`; in a table its strings. A caller reads
//! the first by `VersionBlock::parse`, takes its `string_tables`, of each the `translation` and the `children`, which are the
//! strings, with any key; and the `translations` of the file. Nothing allocates but what returns a text, nothing calls
//! itself, and each level reads the bytes of a block once.
//!
//! `VersionInfo` reads the same bytes flat, as goblin does: it finds twelve names wherever they are.

ghost use Rattle.std.specs.Prelude.{◌≡◌, ◌<◌, ◌≤◌, ◌==◌, ◌↔◌, IsTrue, length, take, drop, map, string_bytes, IfOk, IfSome, Some, None};
ghost use Rattle.std.specs.Iterator.{at_most};
ghost use Rattle.std.specs.Option.{option_map};
ghost use Rattle.std.specs.Str.{bytes_eq};
ghost use Rattle.std.proofs.Common.{arith};
ghost use Rattle.pe_core.specs.EntriesLeft.{bytes_left};
ghost use Rattle.pe_core.specs.HexDigits.{number_after};
ghost use Rattle.pe_resource.specs.VersionBlocks.{BlockReturns, block_answer, block_view, whole_block, own_bytes, first_block, blocks, rest_of, ReturnsBlock, block_with_key, children_of, value_of, version_block, fixed_info_of_block, children_with_key, value_with_key, value_below, string_tables, translations, translation_at, translation_of_key, block_of_content};
ghost use Rattle.pe_resource.specs.EntriesAfter.{translations_after};
ghost use Rattle.pe_resource.specs.VersionFields.{ReturnsText};
ghost use Rattle.pe_resource.specs.VersionStrings.{units};

use crate::constants::{RESOURCE_STRING_FIELD_ALIGNMENT, VS_VERSION_INFO_KEY};
use crate::string::{SIZE_OF_HEAD, SIZE_OF_UNIT, key_length, same_units, size_of_value, text_of};
use crate::version::{SIZE_OF_FIXED_INFO, VsFixedFileInfo};
use crate::version_block_error::VersionBlockError;
use pe_core::{TableEntries, TableEntry, hex_digit, read_u16, require_bytes, rounded_up};
use std::alloc::{AllocError, Allocator};

/// The key of the block that contains the string tables.
const STRING_FILE_INFO_KEY: &str = "StringFileInfo";

/// The key of the block that contains `Translation`.
const VAR_FILE_INFO_KEY: &str = "VarFileInfo";

/// The key of the block whose value is the languages and code pages of a file.
const TRANSLATION_KEY: &str = "Translation";

/// The result of a call that may fail with `VersionBlockError`.
type Result<T> = std::result::Result<T, VersionBlockError>;

/// A language and a code page: those of a string table, or some that a file supports.
#[derive(Clone, Copy, Debug, Default, PartialEq)]
pub struct Translation {
    /// The language identifier of Windows, as 0x409 for English (United States); 0 for any language.
    pub language: u16,
    /// The code page, as 1200 for UTF-16 and 1252 for Latin letters. Strings are in UTF-16, whatever it says.
    pub code_page: u16,
}

impl TableEntry for Translation {
    ghost SIZE = { 4 };

    ghost entry_at = { translation_at };

    const SIZE: usize = 4;

    const ITERATOR: &'static str = "Translations";

    fn at(bytes: &[u8], offset: usize) -> Translation {
        Translation {
            language: read_u16(bytes, offset),
            code_page: read_u16(bytes, offset + 2),
        }
    }

    ghost has_bytes = { omega arith };

    ghost reads_after = { translations_after };
}

/// The languages and code pages that are left of `Translation`.
pub type Translations<'a> = TableEntries<'a, Translation>;

/// A block of version information.
#[derive(Clone, Copy, Debug, PartialEq)]
pub struct VersionBlock<'a> {
    /// The length in bytes, with all blocks that it contains.
    pub length: u16,
    /// The length of the value, as the file states it: in code units if the value is a text, else in bytes.
    pub value_length: u16,
    /// 1 if the value is a text, 0 if it is binary data.
    pub value_type: u16,
    /// The UTF-16 code units of the key, without the zero one that ends it.
    pub key: &'a [u8],
    /// The bytes of the value; of a text with the zero code unit that ends it, if its length counts it. A value whose length
    /// passes the end of the block is truncated there: some tools state the length of a text in bytes.
    pub value: &'a [u8],
    /// The bytes of the blocks that it contains; see `children`.
    pub child_bytes: &'a [u8],
}

/// The bytes from an offset on, none if it is past the end.
#[tactic(auto, using(pe_core::proofs::Texts::no_rest))]
fn bytes_from(bytes: &[u8], offset: usize) -> &[u8]
    ensures { result.now ≡ drop offset bytes.now }
{
    if bytes.len() < offset {
        return &[];
    }
    &bytes[offset..]
}

/// The first `n` bytes, all if there are fewer.
#[tactic(auto, using(crate::proofs::BlockLists::all_before))]
fn bytes_before(bytes: &[u8], n: usize) -> &[u8]
    ensures { result.now ≡ take n bytes.now }
{
    if bytes.len() < n {
        return bytes;
    }
    &bytes[..n]
}

/// The bytes of the block at the start of others, as many as its length says. Errors, in order: `Image` with `Short` if
/// there are fewer than 6; `BelowHead`; `PastEnd`.
#[tactic(auto, unfolding(crate::specs::VersionBlocks::own_bytes))]
fn own_bytes(bytes: &[u8]) -> Result<&[u8]>
    ensures own { BlockReturns (λ s. s.now) result (own_bytes bytes.now) }
    ensures some { IfOk result (λ s. 6 ≤ length s.now) }
    ensures few { IfOk result (λ s. length s.now < 65536) }
{
    require_bytes(bytes, 0, SIZE_OF_HEAD)?;
    let length = read_u16(bytes, 0);
    let end = usize::from(length);
    if end < SIZE_OF_HEAD {
        return Err(VersionBlockError::BelowHead(length));
    }
    if bytes.len() < end {
        return Err(VersionBlockError::PastEnd {
            length,
            left: bytes.len(),
        });
    }
    Ok(&bytes[..end])
}

/// The block that stands first in some bytes, or why it is not read, and the bytes of the blocks after it, none where its
/// length is wrong. `None` if there are no bytes, or at a length of 0. Errors, in order: those of `own_bytes`, then of
/// `VersionBlock::whole`.
#[tactic(auto, unfolding(crate::specs::VersionBlocks::first_block))]
fn first_block(bytes: &[u8]) -> Option<(Result<VersionBlock<'_>>, &[u8])>
    ensures first { option_map (λ x. (block_answer block_view x.0, x.1.now)) result
        ≡ first_block bytes.now }
    ensures fewer { IfSome result (λ x. length x.1.now < length bytes.now) }
{
    if bytes.is_empty() || (SIZE_OF_UNIT <= bytes.len() && read_u16(bytes, 0) == 0) {
        return None;
    }
    match own_bytes(bytes) {
        Ok(own) => {
            let size = rounded_up(own.len(), RESOURCE_STRING_FIELD_ALIGNMENT);
            Some((VersionBlock::whole(own), bytes_from(bytes, size)))
        }
        Err(error) => Some((Err(error), &[])),
    }
}

/// The number of eight hexadecimal digits in UTF-16.
#[tactic(auto, using(crate::proofs::Digits::steps))]
fn number_of(digits: &[u8]) -> Option<u32>
    requires { length digits.now ≡ 16 }
    ensures { result ≡ number_after 0 (units digits.now) }
{
    let mut number = 0u64;
    for i in 0..8 {
        let digit = hex_digit(read_u16(digits, SIZE_OF_UNIT * i))?;
        number = 16 * number + u64::from(digit);
    }
    // Eight digits fit 32 bits.
    Some(number as u32)
}

impl<'a> VersionBlock<'a> {
    /// The block of these bytes, which are its own. Error: `KeyEnd`.
    #[tactic(auto, unfolding(crate::specs::VersionBlocks::whole_block, crate::specs::VersionBlocks::block_of, crate::specs::VersionStrings::value_offset))]
    fn whole(bytes: &'a [u8]) -> Result<VersionBlock<'a>>
        requires head { 6 ≤ length bytes.now }
        requires few { length bytes.now < 65536 }
        ensures { BlockReturns block_view result (whole_block bytes.entry.now) }
    {
        let length = read_u16(bytes, 0);
        let key_end = SIZE_OF_HEAD + key_length(bytes, SIZE_OF_HEAD);
        if bytes.len() < key_end + SIZE_OF_UNIT {
            return Err(VersionBlockError::KeyEnd(length));
        }
        let (value_length, value_type) = (read_u16(bytes, 2), read_u16(bytes, 4));
        let size = size_of_value(value_length, value_type);
        let value_offset = rounded_up(key_end + SIZE_OF_UNIT, RESOURCE_STRING_FIELD_ALIGNMENT);
        let after_key = bytes_from(bytes, value_offset);
        Ok(VersionBlock {
            length,
            value_length,
            value_type,
            key: &bytes[SIZE_OF_HEAD..key_end],
            value: bytes_before(after_key, size),
            child_bytes: bytes_from(after_key, rounded_up(size, RESOURCE_STRING_FIELD_ALIGNMENT)),
        })
    }

    /// Reads the block that version information is: the first one of `data`, the content of a resource with the id
    /// `RT_VERSION`. `None` if that is empty or starts with a length of 0. Errors, in order: `Image` with `Short` if there are
    /// fewer than 6 bytes; `BelowHead`; `PastEnd`; `KeyEnd`.
    pub fn parse(data: &'a [u8]) -> Result<Option<VersionBlock<'a>>>
        ensures { BlockReturns (option_map block_view) result (version_block data.entry.now) }
    {
        match first_block(data) {
            Some((item, _)) => Ok(Some(item?)),
            None => Ok(None),
        }
    }

    /// The blocks that it contains.
    pub fn children(&self) -> VersionBlocks<'a>
        ensures { rest_of result ≡ (block_view self.now).children }
    {
        VersionBlocks::new(self.child_bytes)
    }

    /// The fixed file information, which is the value of the block with the key `VS_VERSION_INFO`, as for `VersionInfo`. `None`
    /// if the key is another, or if the value has fewer than 52 bytes.
    pub fn fixed_info(&self) -> Option<VsFixedFileInfo>
        ensures { result ≡ fixed_info_of_block (block_view self.now) }
    {
        if !same_units(self.key, VS_VERSION_INFO_KEY.as_bytes())
            || self.value.len() < SIZE_OF_FIXED_INFO
        {
            return None;
        }
        Some(VsFixedFileInfo::at(self.value, 0))
    }

    /// Returns the key as a text. `None` if a surrogate is unpaired. `AllocError` if memory ran out.
    pub fn key_string<A: Allocator + Copy + Drop>(
        &self,
        alloc: A,
    ) -> std::result::Result<Option<String<A>>, AllocError>
        ensures { ReturnsText result (Some (block_view self.now).key) }
    {
        text_of(alloc, self.key)
    }

    /// Returns the value as a text, up to the first zero code unit. `None` for an odd number of bytes, or if a surrogate is
    /// unpaired. `AllocError` if memory ran out.
    pub fn value_string<A: Allocator + Copy + Drop>(
        &self,
        alloc: A,
    ) -> std::result::Result<Option<String<A>>, AllocError>
        ensures { ReturnsText result (Some (block_view self.now).value) }
    {
        text_of(alloc, self.value)
    }

    /// What the first child with this key contains: no blocks without one. Error: that of `with_key`.
    #[tactic(auto, unfolding(crate::specs::VersionBlocks::children_with_key))]
    fn children_with_key(&self, name: &str) -> Result<VersionBlocks<'a>>
        ensures { BlockReturns rest_of result
            (children_with_key name.now (block_view self.now)) }
    {
        match self.children().with_key(name)? {
            Some(child) => Ok(child.children()),
            None => Ok(VersionBlocks::new(&[])),
        }
    }

    /// The string tables of version information: the blocks in the first block `StringFileInfo` that it contains, none
    /// without it. The key of a table is its `translation`, and the blocks in a table are its strings. Error: that of the
    /// first block in version information that is not read, if none is `StringFileInfo`.
    pub fn string_tables(&self) -> Result<VersionBlocks<'a>>
        ensures { BlockReturns rest_of result (string_tables (block_view self.now)) }
    {
        self.children_with_key(STRING_FILE_INFO_KEY)
    }

    /// The value of the first of some blocks with this key: no bytes without one. Error: that of `with_key`.
    #[tactic(auto, unfolding(crate::specs::VersionBlocks::value_with_key))]
    fn value_with_key(blocks: VersionBlocks<'a>, name: &str) -> Result<&'a [u8]>
        ensures { BlockReturns (λ s. s.now) result
            (value_with_key name.now (rest_of blocks.entry)) }
    {
        match blocks.with_key(name)? {
            Some(block) => Ok(block.value),
            None => Ok(&[]),
        }
    }

    /// The languages and code pages in the first block with the second key in what the first child with the first key
    /// contains: none without them. Errors, in order: those of `children_with_key`, then of `value_with_key`.
    fn translations_below(&self, outer: &str, inner: &str) -> Result<Translations<'a>>
        ensures { BlockReturns
            bytes_left result (value_below outer.now inner.now (block_view self.now)) }
    {
        let blocks = self.children_with_key(outer)?;
        let value = VersionBlock::value_with_key(blocks, inner)?;
        Ok(TableEntries::new(value))
    }

    /// The languages and code pages that the file supports: the value of the first block `Translation` in the first block
    /// `VarFileInfo` that version information contains, none without them. Errors, in order: that of the first block in
    /// version information that is not read, if none is `VarFileInfo`; the same in this one, if none is `Translation`.
    pub fn translations(&self) -> Result<Translations<'a>>
        ensures { BlockReturns bytes_left result (translations (block_view self.now)) }
    {
        self.translations_below(VAR_FILE_INFO_KEY, TRANSLATION_KEY)
    }

    /// The language and the code page of a string table: its key is eight hexadecimal digits, four for each. `None` if it is
    /// not.
    #[tactic(auto, unfolding(crate::specs::VersionBlocks::translation_of_key))]
    pub fn translation(&self) -> Option<Translation>
        ensures { result ≡ translation_of_key (block_view self.now).key }
    {
        if self.key.len() != 16 {
            return None;
        }
        let number = number_of(self.key)?;
        Some(Translation {
            language: (number >> 16) as u16,
            code_page: (number & 0xFFFF) as u16,
        })
    }

    /// The block in the content of a resource, if there is one.
    pub(crate) fn of_content(content: Option<&'a [u8]>) -> Result<Option<VersionBlock<'a>>>
        ensures { BlockReturns (option_map block_view) result
            (block_of_content (option_map (λ s. s.now) content.entry)) }
    {
        match content {
            Some(data) => VersionBlock::parse(data),
            None => Ok(None),
        }
    }
}

/// The blocks that are left in a block. A block that is not read is one item, an error. After `KeyEnd` the walk goes on at the
/// next block; after another error it is over, since the length of the block does not lead there.
#[derive(Clone, Copy, Debug)]
pub struct VersionBlocks<'a> {
    left: &'a [u8],
}

impl<'a> VersionBlocks<'a> {
    /// The blocks of these bytes, the first at their start, each other at the next multiple of four after the end of the one
    /// before it. They end with the bytes, or at a length of 0.
    pub fn new(bytes: &'a [u8]) -> VersionBlocks<'a>
        ensures { rest_of result ≡ bytes.entry.now }
    {
        VersionBlocks { left: bytes }
    }

    /// The bytes that are left: those of the next block are at their start. Empty if the walk is over.
    pub fn rest(&self) -> &'a [u8]
        ensures { result.now ≡ rest_of self.now }
    {
        self.left
    }

    /// The first block with this key. Without one, the error of the first block that is not read, or `None`.
    #[tactic(auto)]
    fn with_key(self, name: &str) -> Result<Option<VersionBlock<'a>>>
        ensures { BlockReturns (option_map block_view) result
            (block_with_key name.now (blocks (rest_of self.entry))) }
    {
        let mut refusal = None;
        for item in self {
            match item {
                Ok(block) => {
                    if same_units(block.key, name.as_bytes()) {
                        return Ok(Some(block));
                    }
                }
                Err(error) => {
                    if refusal.is_none() {
                        refusal = Some(error);
                    }
                }
            }
        }
        match refusal {
            Some(error) => Err(error),
            None => Ok(None),
        }
    }
}

impl<'a> Iterator for VersionBlocks<'a> {
    type Item = Result<VersionBlock<'a>>;

    ghost next_gives = { λ s r t. ReturnsBlock (rest_of s) r (rest_of t) };

    ghost remaining = { λ s. at_most (length (rest_of s)) };

    fn next(&mut self) -> Option<Result<VersionBlock<'a>>> {
        let Some((item, rest)) = first_block(self.rest()) else {
            *self = VersionBlocks::new(&[]);
            return None;
        };
        *self = VersionBlocks::new(rest);
        Some(item)
    }
}
