//! The checksum of an image, as `CheckSumMappedFile` of Windows' ImageHlp computes it: the 16-bit words of the file, added
//! with end-around carry, plus the length of the file. The field that holds it counts as zeros. Windows tests it for
//! drivers and boot files. The field is the member [CheckSum] of the optional header.
//!
//! [CheckSum]: https://learn.microsoft.com/windows/win32/debug/pe-format#optional-header-windows-specific-fields-image-only

ghost use Rattle.std.specs.Prelude.{◌≡◌, ◌*◌, ◌<◌, length};
ghost use Rattle.pe_core.specs.Header.{header_view};
ghost use Rattle.pe_core.specs.Refusals.{Returns};
ghost use Rattle.pe_sign.specs.Checksum.{summed_byte, summed_word, with_carry, checksum_of, checksum_range_of, checked_sum};

use pe_core::{ByteRange, Error, Header, Reason, Result};

/// The length in bytes of the field that holds the checksum.
pub const SIZE_OF_CHECKSUM: usize = 4;

/// The offset of the field from the start of the optional header, in PE32 and PE32+ alike.
const CHECKSUM_IN_HEADER: usize = 64;

/// The length in bytes of the PE signature and the COFF header.
const SIZE_BEFORE_OPTIONAL_HEADER: usize = 24;

/// The sum with one more word: a carry out of bit 15 is added at bit 0.
fn with_carry(sum: u16, word: u16) -> u16
    ensures { result ≡ with_carry sum word }
{
    let sum = u32::from(sum) + u32::from(word);
    if sum < 0x1_0000 {
        sum as u16
    } else {
        (sum - 0xFFFF) as u16
    }
}

/// The byte at an offset. It is 0 in the field at `field`, and after the end of the file.
fn byte_of(bytes: &[u8], field: usize, offset: usize) -> u8
    ensures { result ≡ summed_byte bytes.now field offset }
{
    if offset >= field && offset - field < SIZE_OF_CHECKSUM {
        return 0;
    }
    match bytes.get(offset) {
        Some(byte) => *byte,
        None => 0,
    }
}

/// The word with this index, which counts words.
fn word_of(bytes: &[u8], field: usize, index: usize) -> u16
    requires { 2 * index < length bytes.now }
    ensures { result ≡ summed_word bytes.now field index }
{
    let low = byte_of(bytes, field, 2 * index);
    let high = byte_of(bytes, field, 2 * index + 1);
    u16::from(low) + 256 * u16::from(high)
}

/// The checksum of a file whose field for it is at the offset `field`.
#[tactic(auto, using(crate::proofs::Sums::fold_each), unfolding(pe_core::specs::Rows::each, crate::specs::Checksum::checksum_of))]
pub fn checksum_of(bytes: &[u8], field: usize) -> u32
    ensures { result ≡ checksum_of bytes.now field }
{
    let mut sum = 0;
    for index in 0..bytes.len().div_ceil(2) {
        sum = with_carry(sum, word_of(bytes, field, index));
    }
    let length = (bytes.len() % 0x1_0000_0000) as u32;
    length.wrapping_add(u32::from(sum))
}

/// The file range of the field that holds the checksum, which `header.optional_header` has as
/// `windows_fields.check_sum`. Error: `NoOptionalHeader`.
pub fn checksum_range(header: &Header<'_>) -> Result<ByteRange>
    ensures { Returns result (checksum_range_of (header_view header.now)) }
{
    if header.optional_header.is_none() {
        return Err(Error::Malformed(Reason::NoOptionalHeader));
    }
    Ok(ByteRange {
        offset: header.dos_header.pe_pointer as usize
            + SIZE_BEFORE_OPTIONAL_HEADER
            + CHECKSUM_IN_HEADER,
        length: SIZE_OF_CHECKSUM,
    })
}

/// The checksum of the image whose file is `bytes`: what the field has to hold. What it holds is not read. `header` is
/// the image's, and says where the field is. Error: `NoOptionalHeader`.
pub fn checksum(bytes: &[u8], header: &Header<'_>) -> Result<u32>
    ensures { Returns result (checked_sum bytes.now (header_view header.now)) }
{
    let field = checksum_range(header)?;
    Ok(checksum_of(bytes, field.offset))
}
