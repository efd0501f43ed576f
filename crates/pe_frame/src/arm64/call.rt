//! Calls on ARM64 by their bytes: what stands before a return address.
//!
//! An instruction has four bytes, at a multiple of four. A call is `BL`, with the distance to its target, or `BLR` by a register
//! and its forms that check a signature
//! ([Arm's manual](https://developer.arm.com/documentation/ddi0602/latest/Base-Instructions), BL, BLR, BLRAA).

ghost use Rattle.std.specs.Prelude.{◌≡◌};
ghost use Rattle.pe_frame.specs.Arm64CallForms.{is_call_arm64, is_call_word};

use pe_core::read_u32;

/// The bytes of an instruction.
const SIZE_OF_CALL: usize = 4;

/// The bits of each call above those of its operands, and the weight of the lowest of them.
const BL: u32 = 0x25;

const BL_OPERANDS: u32 = 0x400_0000;

const BLR: u32 = 0x35_8FC0;

const BLR_OPERANDS: u32 = 0x400;

const BLR_ZERO_MODIFIER: u32 = 0x1A_C7E1;

const BLR_MODIFIER: u32 = 0x1A_E7E1;

const BLR_KEY: u32 = 0x800;

/// How many registers the lowest five bits can name, and their number where the modifier is zero.
const REGISTERS: u32 = 32;

const NO_MODIFIER: u32 = 31;

/// Whether a word is a call.
fn is_call_word(word: u32) -> bool
    ensures { result ≡ is_call_word word }
{
    word / BL_OPERANDS == BL
        || word / BLR_OPERANDS == BLR && word % REGISTERS == 0
        || word / BLR_KEY == BLR_ZERO_MODIFIER && word % REGISTERS == NO_MODIFIER
        || word / BLR_KEY == BLR_MODIFIER
}

/// Whether the bytes are a call.
#[tactic(auto, unfolding(crate::specs::Arm64CallForms::is_call_arm64))]
pub(crate) fn is_call_arm64(code: &[u8]) -> bool
    ensures { result ≡ is_call_arm64 code.now }
{
    code.len() == SIZE_OF_CALL && is_call_word(read_u32(code, 0))
}
