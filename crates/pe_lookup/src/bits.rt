//! A search by halving finds a number bit by bit, from the highest on: what such searches share.

ghost use Rattle.std.specs.Prelude.{◌≡◌, ◌<◌, ◌≤◌, ◌^◌};

/// How many bits a number has.
pub fn bits_of(number: usize) -> u32
    ensures enough { number < 2 ^ result }
    ensures most { result ≤ 64 }
{
    usize::BITS - number.leading_zeros()
}

/// A power of two.
#[tactic(auto, using(crate::proofs::Halving::shifted))]
pub fn power_of_two(bits: u32) -> usize
    requires { bits < 64 }
    ensures { result ≡ 2 ^ bits }
{
    1 << bits
}
