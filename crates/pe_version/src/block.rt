//! One block of version information: a head of three numbers of 16 bits (its length, the length of its value, and 1 for a
//! text), its key in UTF-16 with a zero, its value, and the blocks in it. Value and blocks each start at a multiple of four.

ghost use Rattle.std.specs.Prelude.{◌≡◌, ◌<◌, ◌≤◌, [], ◌∷◌, length, nat_lt};
ghost use Rattle.pe_core.specs.Bytes.{splice};
ghost use Rattle.pe_core.specs.Refusals.{outcome};
ghost use Rattle.pe_version.specs.VersionRefusals.{TooLong, VersionReturns, VersionReturnsWritten, block_of, block_tests, block_view, key_fits, length_of, parts_of, written};
ghost use Rattle.pe_version.specs.WrittenBlocks.{Fits, before_others, block_bytes, block_length, type_number, value_length};

use crate::error::VersionError;
use pe_core::{read_u16, require_room, rounded_up, set_slice, set_u16, set_zeros};

/// The most bytes that a block has.
pub const MOST: usize = 65_535;

/// Values and blocks start at a multiple of this many bytes.
pub const UNIT: usize = 4;

/// A block that is written.
#[derive(Clone, Copy)]
pub struct NewBlock<'a> {
    /// Its key as UTF-16 code units, two bytes each, little-endian, without a final zero.
    pub key: &'a [u8],
    /// Whether its value is a text.
    pub is_text: bool,
    /// Its value; of a text UTF-16 code units with a final zero.
    pub value: &'a [u8],
    /// The bytes of the blocks in it, one after the other, as `write_block` writes them.
    pub children: &'a [u8],
}

/// Where the value of a block starts, where the blocks in it start, and where it ends.
#[derive(Clone, Copy)]
pub struct Parts {
    value: usize,
    children: usize,
    end: usize,
}

/// Whether a key has whole code units, of which none is zero.
#[tactic(auto, using(crate::proofs::Keys::unit_is_zero, crate::proofs::Keys::more_units, crate::proofs::Keys::all_units))]
pub fn key_fits(key: &[u8]) -> bool
    ensures { result ≡ key_fits key.now }
{
    let mut at = 0;
    while key.len() - at >= 2 {
        if read_u16(key, at) == 0 {
            return false;
        }
        at += 2;
    }
    key.len() % 2 == 0
}

/// How long `n` bytes are, with zeros up to a multiple of four if these others follow.
fn before_others(n: usize, others: &[u8]) -> usize
    requires { n < 65536 }
    ensures { result ≡ before_others n others.now }
{
    if others.is_empty() {
        n
    } else {
        rounded_up(n, UNIT)
    }
}

/// The parts of a block. `TooLong` if it has more than 65,535 bytes.
fn measured(block: &NewBlock<'_>) -> Result<Parts, VersionError>
    ensures { VersionReturns result (outcome
        ((nat_lt (block_length (block_view block.now)) 65536, TooLong) ∷ []) (parts_of (block_view block.now))) }
{
    let longest = block
        .key
        .len()
        .max(block.value.len())
        .max(block.children.len());
    if longest > MOST {
        return Err(VersionError::TooLong(longest));
    }
    let value = rounded_up(8 + block.key.len(), UNIT);
    let children = value + before_others(block.value.len(), block.children);
    let end = children + block.children.len();
    if end > MOST {
        return Err(VersionError::TooLong(end));
    }
    Ok(Parts {
        value,
        children,
        end,
    })
}

/// The parts of a block that can be written. Errors, in order: `Key`, `Text`, `TooLong`.
fn checked(block: &NewBlock<'_>) -> Result<Parts, VersionError>
    ensures { VersionReturns result
        (outcome (block_tests (block_view block.now)) (parts_of (block_view block.now))) }
{
    if !key_fits(block.key) {
        return Err(VersionError::Key);
    }
    if block.is_text && block.value.len() % 2 != 0 {
        return Err(VersionError::Text);
    }
    measured(block)
}

/// The length of the value: of a text in code units, else in bytes.
fn value_length(block: &NewBlock<'_>) -> usize
    ensures { result ≡ value_length (block_view block.now) }
{
    if block.is_text {
        block.value.len() / 2
    } else {
        block.value.len()
    }
}

/// The number of the type of its value: 1 for a text.
pub fn type_number(is_text: bool) -> u16
    ensures { result ≡ type_number is_text }
{
    if is_text { 1 } else { 0 }
}

/// Writes the block at the start of the buffer, without the zeros after it.
#[tactic(auto, using(crate::proofs::Calls::block_set_by))]
fn set_block(out: &mut [u8], block: &NewBlock<'_>, parts: Parts)
    requires parts { parts ≡ parts_of (block_view block.now) }
    requires fits { Fits (block_view block.now) }
    requires room { block_length (block_view block.now) ≤ length out.old }
    ensures { out.new ≡ splice out.old 0 (block_bytes (block_view block.now)) }
{
    let key_end = 6 + block.key.len();
    let value_end = parts.value + block.value.len();
    set_u16(out, 0, parts.end as u16);
    set_u16(out, 2, value_length(block) as u16);
    set_u16(out, 4, type_number(block.is_text));
    set_slice(out, 6, block.key);
    set_zeros(out, key_end, parts.value - key_end);
    set_slice(out, parts.value, block.value);
    set_zeros(out, value_end, parts.children - value_end);
    set_slice(out, parts.children, block.children);
}

/// The length of what `write_block` writes with this block. Errors: those of `write_block`, but for the buffer's.
pub fn block_len(block: &NewBlock<'_>) -> Result<usize, VersionError>
    ensures { VersionReturns result (length_of (block_of (block_view block.now))) }
{
    let parts = checked(block)?;
    Ok(rounded_up(parts.end, UNIT))
}

/// Writes a block at the start of `out`, with zeros up to a multiple of four, where the next one starts. Returns its length with
/// them; the bytes of `out` after it stay as they were.
///
/// Errors, in this order, each of which leaves `out` as it was:
/// - `Key` if the key has an odd number of bytes, or a code unit of zero;
/// - `Text` if the value is a text of an odd number of bytes;
/// - `TooLong` if the block has more than 65,535 bytes;
/// - `Image` with `WriteFit` if it does not fit into `out`.
pub fn write_block(block: &NewBlock<'_>, out: &mut [u8]) -> Result<usize, VersionError>
    ensures { VersionReturnsWritten result
        (written (block_of (block_view block.now)) out.old) out.old out.new }
{
    let parts = checked(block)?;
    let size = rounded_up(parts.end, UNIT);
    require_room(out, 0, size)?;
    set_block(out, block, parts);
    set_zeros(out, parts.end, size - parts.end);
    Ok(size)
}
