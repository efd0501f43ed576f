//! Numbers as decimal and hexadecimal digits.

ghost use Rattle.std.specs.Prelude.{◌≡◌, ◌%◌, ◌++◌, OnOk};
ghost use Rattle.std.specs.Fmt.{decimal};
ghost use Rattle.peinfo.specs.Hex.{hex, hex_digit};

use std::alloc::{AllocError, Allocator};

const DIGITS: &[u8; 16] = b"0123456789abcdef";

/// The last hexadecimal digit, in lower case.
#[tactic(auto, using(crate::proofs::HexText::digit_at))]
fn last_digit(n: u64) -> u8
    ensures { result ≡ hex_digit (n % 16) }
{
    DIGITS[(n % 16) as usize]
}

/// The four hexadecimal digits, with leading zeros.
#[tactic(auto, unfolding(crate::specs::Hex::hex))]
pub fn hex4_digits(n: u16) -> [u8; 4]
    ensures { result ≡ hex 4 n }
{
    let number = u64::from(n);
    [
        last_digit(number / 0x1000),
        last_digit(number / 0x100),
        last_digit(number / 0x10),
        last_digit(number),
    ]
}

/// The eight hexadecimal digits, with leading zeros.
#[tactic(auto, unfolding(crate::specs::Hex::hex))]
pub fn hex8_digits(n: u32) -> [u8; 8]
    ensures { result ≡ hex 8 n }
{
    let n = u64::from(n);
    [
        last_digit(n / 0x1000_0000),
        last_digit(n / 0x100_0000),
        last_digit(n / 0x10_0000),
        last_digit(n / 0x1_0000),
        last_digit(n / 0x1000),
        last_digit(n / 0x100),
        last_digit(n / 0x10),
        last_digit(n),
    ]
}

/// The sixteen hexadecimal digits, with leading zeros.
#[tactic(auto, unfolding(crate::specs::Hex::hex))]
pub fn hex16_digits(n: u64) -> [u8; 16]
    ensures { result ≡ hex 16 n }
{
    [
        last_digit(n / 0x1000_0000_0000_0000),
        last_digit(n / 0x100_0000_0000_0000),
        last_digit(n / 0x10_0000_0000_0000),
        last_digit(n / 0x1_0000_0000_0000),
        last_digit(n / 0x1000_0000_0000),
        last_digit(n / 0x100_0000_0000),
        last_digit(n / 0x10_0000_0000),
        last_digit(n / 0x1_0000_0000),
        last_digit(n / 0x1000_0000),
        last_digit(n / 0x100_0000),
        last_digit(n / 0x10_0000),
        last_digit(n / 0x1_0000),
        last_digit(n / 0x1000),
        last_digit(n / 0x100),
        last_digit(n / 0x10),
        last_digit(n),
    ]
}

/// Adds the decimal digits. After an allocation failure some of the first digits may have been added.
#[tactic(auto, using(crate::proofs::DecimalText::steps))]
pub fn push_decimal<A: Allocator>(text: &mut Vec<u8, A>, n: u32) -> Result<(), AllocError>
    ensures { OnOk result (text.new.items ≡ text.old.items ++ decimal n) }
{
    let last = b'0' + (n % 10) as u8;
    if n < 10 {
        text.push(last)?;
        return Ok(());
    }
    if n >= 100 {
        push_decimal(text, n / 100)?;
    }
    text.extend_from_slice(&[b'0' + (n / 10 % 10) as u8, last])?;
    Ok(())
}
