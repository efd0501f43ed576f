//! Hexadecimal digits, as version information and command lines have them: the value of one.

ghost use Rattle.std.specs.Prelude.{◌≡◌, ◌<◌, IfSome};
ghost use Rattle.pe_core.specs.HexDigits.{digit_of};

/// The value of a hexadecimal digit of either case, by its code in ASCII or UTF-16. `None` for any other code.
#[tactic(auto, unfolding(crate::specs::HexDigits::digit_of))]
pub fn hex_digit(code: u16) -> Option<u16>
    ensures value { result ≡ digit_of code }
    ensures small { IfSome result (λ digit. digit < 16) }
{
    match code {
        0x30..=0x39 => Some(code - 0x30),
        0x41..=0x46 => Some(code - 0x41 + 10),
        0x61..=0x66 => Some(code - 0x61 + 10),
        _ => None,
    }
}
