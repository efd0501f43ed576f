//! Version information as a tree of blocks, each inside the length of the one that it belongs to: the fixed file information,
//! in it `StringFileInfo` with a string table for each language, whose blocks are strings with any key, and `VarFileInfo`
//! with `Translation`, the languages and code pages of the file.
//! https://learn.microsoft.com/windows/win32/menurc/vs-versioninfo

ghost use Rattle.std.specs.Prelude.{◌≡◌, ◌+◌, ◌<◌, ◌^◌, length};
ghost use Rattle.pe_core.specs.Refusals.{answer_of, kind_of};
ghost use Rattle.pe_resource.specs.VersionBlocks.{block_kind_of, block_view};
ghost use Rattle.calls_directories.specs.VersionBlocks.{block_step, block_walk, refusal_of, reported};

use calls_base::directories::range_left;
use calls_base::ranges::{NO_BYTES, Range, slice_of};
use pe_core::{Error, Reason, Result, rounded_up};
use pe_resource::{Translation, VersionBlock as Block, VersionBlockError, VersionBlocks};

/// The size of a block's head before its key in bytes.
const SIZE_OF_HEAD: u64 = 6;

/// A block of version information.
#[repr(C)]
#[derive(Clone, Copy)]
pub struct VersionBlock {
    /// UTF-16 code units, without the zero one that ends them.
    pub key: Range,
    /// A text in UTF-16 or binary data.
    pub value: Range,
    /// A walk over the blocks that it contains, at its start.
    pub children: Range,
    /// 1 where the value is a text, 0 where it is binary data.
    pub value_type: u32,
    /// 1 where the key is eight hexadecimal digits, as that of a string table is, else 0.
    pub has_language: u32,
    /// The language identifier that the first four digits are.
    pub language: u32,
    /// The code page that the last four digits are.
    pub code_page: u32,
}

/// The error of a block as calls return it.
fn error_of(error: VersionBlockError) -> Error
    ensures { kind_of result ≡ refusal_of (block_kind_of error) }
{
    match error {
        VersionBlockError::Image(error) => error,
        VersionBlockError::PastEnd { length, .. } => Error::Short {
            // Callers get the error's number alone, so the offset is left at 0.
            at: 0,
            needed: usize::from(length),
        },
        VersionBlockError::BelowHead(_) | VersionBlockError::KeyEnd(_) => {
            Error::Malformed(Reason::ResourceString(0))
        }
    }
}

/// A block at the start of a range as callers get it.
fn reported(range: Range, block: &Block<'_>) -> VersionBlock
    requires { range.offset < 2 ^ 63 }
    ensures { result ≡ reported range (block_view block.now) }
{
    let length = u64::from(block.length);
    let key_length = block.key.len();
    let value_offset = (rounded_up(8 + key_length, 4) as u64).min(length);
    let child_length = block.child_bytes.len() as u64;
    let language = block.translation();
    let Translation {
        language: identifier,
        code_page,
    } = language.unwrap_or_default();
    VersionBlock {
        key: Range {
            offset: range.offset + SIZE_OF_HEAD,
            length: key_length as u64,
        },
        value: Range {
            offset: range.offset + value_offset,
            length: block.value.len() as u64,
        },
        children: Range {
            offset: range.offset + length.saturating_sub(child_length),
            length: child_length,
        },
        value_type: u32::from(block.value_type),
        has_language: u32::from(language.is_some()),
        language: u32::from(identifier),
        code_page: u32::from(code_page),
    }
}

/// The next block of a walk.
pub fn next_block(bytes: &[u8], walk: &mut Range) -> Result<Option<VersionBlock>>
    ensures block { answer_of result ≡ block_step bytes.now walk.old }
    ensures walk { walk.new ≡ block_walk bytes.now walk.old }
{
    let range = *walk;
    *walk = NO_BYTES;
    let mut blocks = VersionBlocks::new(slice_of(bytes, &range)?);
    let Some(item) = blocks.next() else {
        *walk = range;
        return Ok(None);
    };
    *walk = range_left(range, blocks.rest());
    match item {
        Ok(block) => Ok(Some(reported(range, &block))),
        Err(error) => Err(error_of(error)),
    }
}
