//! Calls by their bytes: what stands before a return address.
//!
//! A stack does not say which of its words are return addresses. But a call has few encodings: E8 with the distance to its
//! target, and FF /2 with an operand in a register or in memory
//! ([Intel's manual](https://www.intel.com/content/www/us/en/developer/articles/technical/intel-sdm.html), volume 2, CALL). An
//! address at which none of them ends is no return address.

ghost use Rattle.std.specs.Prelude.{◌≡◌};
ghost use Rattle.pe_frame.specs.CallForms.{is_call, is_operand_call, is_near_call, near_target, is_rex, operand_size, displacement};

use crate::epilog::widened32;
use pe_core::read_u32;

/// `call` by the distance of its target, and its size.
const CALL_REL32: u8 = 0xE8;

pub(crate) const SIZE_OF_CALL_REL32: u32 = 5;

/// `call` of an operand, and the number in its ModRM byte that says so.
const CALL_OPERAND: u8 = 0xFF;

const CALL_REG: u8 = 2;

/// The REX prefixes: the first, and the byte after the last.
const REX: u8 = 0x40;

const REX_END: u8 = 0x50;

/// The mode of an operand in a register.
const MODE_REGISTER: u8 = 3;

/// The number of a register for which a SIB byte stands, and the base that is none in mode 0.
const SIB: u8 = 4;

const NO_BASE: u8 = 5;

/// How an operand names a place: the mode of its ModRM byte, and the number of the register from which it counts.
#[derive(Clone, Copy)]
struct Operand {
    mode: u8,
    base: u8,
}

/// How many bytes of displacement an operand has.
fn displacement(operand: Operand) -> usize
    ensures { result ≡ displacement operand.mode operand.base }
{
    match operand.mode {
        0 if operand.base == NO_BASE => 4,
        1 => 1,
        2 => 4,
        _ => 0,
    }
}

/// The bytes that say what an operand is.
#[derive(Clone, Copy)]
struct OperandBytes {
    modrm: u8,
    sib: u8,
}

/// The size of an instruction with an operand, from its opcode of one byte on.
fn operand_size(bytes: OperandBytes) -> usize
    ensures { result ≡ operand_size bytes.modrm bytes.sib }
{
    let (mode, register) = (bytes.modrm / 64, bytes.modrm % 8);
    if mode != MODE_REGISTER && register == SIB {
        let base = bytes.sib % 8;
        3 + displacement(Operand { mode, base })
    } else {
        let base = register;
        2 + displacement(Operand { mode, base })
    }
}

/// Whether the bytes are a `call` of an operand.
fn is_operand_call(code: &[u8]) -> bool
    ensures { result ≡ is_operand_call code.now }
{
    if code.len() < 2 || code[0] != CALL_OPERAND || code[1] / 8 % 8 != CALL_REG {
        return false;
    }
    let modrm = code[1];
    let sib = if code.len() == 2 { 0 } else { code[2] };
    code.len() == operand_size(OperandBytes { modrm, sib })
}

/// Whether the bytes are a `call` by the distance of its target.
pub(crate) fn is_near_call(code: &[u8]) -> bool
    ensures { result ≡ is_near_call code.now }
{
    code.len() == SIZE_OF_CALL_REL32 as usize && code[0] == CALL_REL32
}

/// Where a `call` by the distance of its target leads that ends at an address, if the bytes are one.
pub(crate) fn near_target(code: &[u8], end: u64) -> Option<u64>
    ensures { result ≡ near_target code.now end }
{
    if is_near_call(code) {
        Some(end.wrapping_add(widened32(read_u32(code, 1))))
    } else {
        None
    }
}

/// Whether a byte is a REX prefix.
fn is_rex(byte: u8) -> bool
    ensures { result ≡ is_rex byte }
{
    REX <= byte && byte < REX_END
}

/// Whether the bytes are a call.
#[tactic(auto, using(std::proofs::lemmas::List::take_rest), unfolding(crate::specs::CallForms::is_call))]
#[inline(always)]
pub(crate) fn is_call(code: &[u8]) -> bool
    ensures { result ≡ is_call code.now }
{
    if code.is_empty() {
        return false;
    }
    is_near_call(code) || is_operand_call(code) || is_rex(code[0]) && is_operand_call(&code[1..])
}
