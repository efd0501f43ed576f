//! Little-endian numbers and slices at an offset, read and written with bounds checks. Every offset (`offset`) counts
//! from the start of the slice that is passed.

ghost use Rattle.std.specs.Prelude.{◌≡◌, ◌+◌, ◌<◌, ◌≤◌, length, replicate};
ghost use Rattle.pe_core.specs.Bytes.{le, range, bytes_of, splice, record_at, data_at, fit_at};
ghost use Rattle.pe_core.specs.Refusals.{Returns, ReturnsAs};
ghost use Rattle.pe_core.specs.Rows.{SplitsEntry};

use crate::error::{Error, Reason, Result};

/// Returns `Short` unless `n` bytes follow `offset`. A read of 0 bytes succeeds at every offset up to
/// `bytes.len()`.
pub fn require_bytes(bytes: &[u8], offset: usize, n: usize) -> Result<()>
    ensures { Returns result (record_at bytes.now offset n tt) }
{
    // Subtracted, not added: `offset + n` may overflow.
    if n <= bytes.len() && offset <= bytes.len() - n {
        Ok(())
    } else {
        Err(Error::Short {
            at: offset,
            needed: n,
        })
    }
}

/// The `n` bytes from `offset` on. Error: `Short`.
pub fn slice_at(bytes: &[u8], offset: usize, n: usize) -> Result<&[u8]>
    ensures { ReturnsAs
        (λ s. s.now) result (record_at bytes.now offset n (range bytes.now offset n)) }
{
    require_bytes(bytes, offset, n)?;
    Ok(&bytes[offset..offset + n])
}

/// The `n` bytes from `offset` on. Error: `Malformed` with the reason that is passed, if they are truncated.
pub fn data_at<'a>(bytes: &'a [u8], offset: usize, n: usize, refusal: Reason) -> Result<&'a [u8]>
    ensures { ReturnsAs (λ s. s.now) result (data_at bytes.entry.now offset n refusal) }
{
    match slice_at(bytes, offset, n) {
        Ok(data) => Ok(data),
        Err(_) => Err(Error::Malformed(refusal)),
    }
}

/// Splits an entry of `width` bytes off the front of `left`, and returns the bytes from the start of that entry on, so
/// that the entry is at their offset 0.
///
/// `None` if `left` is empty. `Short` if fewer than `width` bytes are left; `left` is then empty.
pub fn split_entry<'a>(left: &mut &'a [u8], width: usize) -> Option<Result<&'a [u8]>>
    requires { 0 < width }
    ensures { SplitsEntry (λ s. s.now) width left.old.now result left.new.now }
{
    let bytes = *left;
    if bytes.is_empty() {
        return None;
    }
    if bytes.len() < width {
        *left = &[];
        return Some(Err(Error::Short {
            at: 0,
            needed: width,
        }));
    }
    *left = bytes.split_at(width).1;
    Some(Ok(bytes))
}

/// The byte at `offset`, which the caller knows to lie in `bytes`.
#[tactic(auto, unfolding(crate::specs::Bytes::le))]
pub fn read_u8(bytes: &[u8], offset: usize) -> u8
    requires { offset + 1 ≤ length bytes.now }
    ensures { result ≡ le bytes.now offset 1 }
{
    u8::from_le_bytes([bytes[offset]])
}

/// The `u16` at `offset`, whose 2 bytes the caller knows to lie in `bytes`.
#[tactic(auto, unfolding(crate::specs::Bytes::le))]
pub fn read_u16(bytes: &[u8], offset: usize) -> u16
    requires { offset + 2 ≤ length bytes.now }
    ensures { result ≡ le bytes.now offset 2 }
{
    u16::from_le_bytes([bytes[offset], bytes[offset + 1]])
}

/// The `u32` at `offset`, whose 4 bytes the caller knows to lie in `bytes`.
#[tactic(auto, unfolding(crate::specs::Bytes::le))]
pub fn read_u32(bytes: &[u8], offset: usize) -> u32
    requires { offset + 4 ≤ length bytes.now }
    ensures { result ≡ le bytes.now offset 4 }
{
    u32::from_le_bytes([
        bytes[offset],
        bytes[offset + 1],
        bytes[offset + 2],
        bytes[offset + 3],
    ])
}

/// The `u64` at `offset`, whose 8 bytes the caller knows to lie in `bytes`.
#[tactic(auto, unfolding(crate::specs::Bytes::le))]
pub fn read_u64(bytes: &[u8], offset: usize) -> u64
    requires { offset + 8 ≤ length bytes.now }
    ensures { result ≡ le bytes.now offset 8 }
{
    u64::from_le_bytes([
        bytes[offset],
        bytes[offset + 1],
        bytes[offset + 2],
        bytes[offset + 3],
        bytes[offset + 4],
        bytes[offset + 5],
        bytes[offset + 6],
        bytes[offset + 7],
    ])
}

/// The byte at `offset`. Error: `Short`.
pub fn u8_at(bytes: &[u8], offset: usize) -> Result<u8>
    ensures { Returns result (record_at bytes.now offset 1 (le bytes.now offset 1)) }
{
    require_bytes(bytes, offset, 1)?;
    Ok(read_u8(bytes, offset))
}

/// The `u16` at `offset`. Error: `Short`.
pub fn u16_at(bytes: &[u8], offset: usize) -> Result<u16>
    ensures { Returns result (record_at bytes.now offset 2 (le bytes.now offset 2)) }
{
    require_bytes(bytes, offset, 2)?;
    Ok(read_u16(bytes, offset))
}

/// The `u32` at `offset`. Error: `Short`.
pub fn u32_at(bytes: &[u8], offset: usize) -> Result<u32>
    ensures { Returns result (record_at bytes.now offset 4 (le bytes.now offset 4)) }
{
    require_bytes(bytes, offset, 4)?;
    Ok(read_u32(bytes, offset))
}

/// The `u64` at `offset`. Error: `Short`.
pub fn u64_at(bytes: &[u8], offset: usize) -> Result<u64>
    ensures { Returns result (record_at bytes.now offset 8 (le bytes.now offset 8)) }
{
    require_bytes(bytes, offset, 8)?;
    Ok(read_u64(bytes, offset))
}

/// Returns `WriteFit` unless `buffer` has `n` bytes from `offset` on.
pub fn require_room(buffer: &[u8], offset: usize, n: usize) -> Result<()>
    ensures { Returns result (fit_at buffer.now offset n) }
{
    // Subtracted, not added: `offset + n` may overflow.
    if n <= buffer.len() && offset <= buffer.len() - n {
        Ok(())
    } else {
        Err(Error::Malformed(Reason::WriteFit {
            end: (offset as u64).saturating_add(n as u64),
            length: buffer.len(),
        }))
    }
}

/// Writes `piece` at `offset`, where the caller knows it to fit.
#[tactic(auto, unfolding(crate::specs::Bytes::splice))]
pub fn set_slice(buffer: &mut [u8], offset: usize, piece: &[u8])
    requires { offset + length piece.now ≤ length buffer.old }
    ensures { buffer.new ≡ splice buffer.old offset piece.now }
{
    buffer[offset..offset + piece.len()].copy_from_slice(piece);
}

/// Writes `n` zeros at `offset`, where the caller knows them to fit.
#[tactic(auto, unfolding(crate::specs::Bytes::splice))]
pub fn set_zeros(buffer: &mut [u8], offset: usize, n: usize)
    requires { offset + n ≤ length buffer.old }
    ensures { buffer.new ≡ splice buffer.old offset (replicate n 0) }
{
    buffer[offset..offset + n].fill(0);
}

/// Writes a byte at `offset`, which the caller knows to fit.
#[tactic(auto, unfolding(crate::specs::Bytes::bytes_of))]
pub fn set_u8(buffer: &mut [u8], offset: usize, n: u8)
    requires { offset + 1 ≤ length buffer.old }
    ensures { buffer.new ≡ splice buffer.old offset (bytes_of 1 n) }
{
    set_slice(buffer, offset, &u8::to_le_bytes(n));
}

/// Writes a `u16` at `offset`, whose 2 bytes the caller knows to fit.
#[tactic(auto, unfolding(crate::specs::Bytes::bytes_of))]
pub fn set_u16(buffer: &mut [u8], offset: usize, n: u16)
    requires { offset + 2 ≤ length buffer.old }
    ensures { buffer.new ≡ splice buffer.old offset (bytes_of 2 n) }
{
    set_slice(buffer, offset, &u16::to_le_bytes(n));
}

/// Writes a `u32` at `offset`, whose 4 bytes the caller knows to fit.
#[tactic(auto, unfolding(crate::specs::Bytes::bytes_of))]
pub fn set_u32(buffer: &mut [u8], offset: usize, n: u32)
    requires { offset + 4 ≤ length buffer.old }
    ensures { buffer.new ≡ splice buffer.old offset (bytes_of 4 n) }
{
    set_slice(buffer, offset, &u32::to_le_bytes(n));
}

/// Writes a `u64` at `offset`, whose 8 bytes the caller knows to fit.
#[tactic(auto, unfolding(crate::specs::Bytes::bytes_of))]
pub fn set_u64(buffer: &mut [u8], offset: usize, n: u64)
    requires { offset + 8 ≤ length buffer.old }
    ensures { buffer.new ≡ splice buffer.old offset (bytes_of 8 n) }
{
    set_slice(buffer, offset, &u64::to_le_bytes(n));
}
