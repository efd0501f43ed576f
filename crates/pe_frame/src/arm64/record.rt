//! Undoing the codes of an ARM64 unwind record.

ghost use Rattle.std.specs.Prelude.{◌≡◌, All, List, [], ◌∷◌, drop, false};
ghost use Rattle.pe_unwind.specs.declared.arm64.codes.Arm64UnwindCode.{Arm64UnwindCode};
ghost use Rattle.pe_frame.specs.Arm64Operations.{is_save_next};
ghost use Rattle.pe_frame.specs.Arm64Undoing.{undone_codes};
ghost use Rattle.pe_frame.specs.Arm64Steps.{is_end_c, CodesThen, AreOver, prolog_length};
ghost use Rattle.pe_frame.specs.Arm64Reading.{IsFirstCode, ReadsCodes, with_nexts};
ghost use Rattle.pe_frame.specs.InPlace.{changed};

use super::entry::undo_custom;
use super::operation::{is_save_next, operation_of};
use super::registers::Arm64Registers;
use super::undo::{undo_operation, undo_save_next};
use crate::error::FrameError;
use crate::memory::Memory;
use pe_core::{Error, Reason};
use pe_unwind::Arm64UnwindCode;

/// The code at the start of the bytes, and its size. `None` if the codes are over: by `end`, or with the bytes. `Codes` if it
/// is truncated; the offset for that counts from the record's first code.
pub(crate) fn first_code(
    bytes: &[u8],
    offset: usize,
) -> Result<Option<(Arm64UnwindCode, usize)>, FrameError>
    ensures { IsFirstCode bytes.now result }
{
    if bytes.is_empty() {
        return Ok(None);
    }
    match Arm64UnwindCode::parse(bytes) {
        Some((Arm64UnwindCode::End, _)) => Ok(None),
        Some((code, size)) => Ok(Some((code, size))),
        None => Err(FrameError::Codes(Error::Malformed(Reason::Arm64Cut(offset)))),
    }
}

/// Whether a code is `end_c`.
fn is_end_c(code: Arm64UnwindCode) -> bool
    ensures { result ≡ is_end_c code }
{
    match code {
        Arm64UnwindCode::EndC => true,
        _ => false,
    }
}

/// `Codes` if one of the codes up to the first `end` is truncated. `index` is that of the first of them in the record's codes.
pub(crate) fn require_codes(codes: &[u8], index: usize) -> Result<(), FrameError>
    ensures { ReadsCodes codes.now result }
{
    let mut rest = codes;
    while !rest.is_empty() {
        let offset = codes.len().saturating_sub(rest.len()).saturating_add(index);
        match first_code(rest, offset) {
            Ok(Some((_, size))) => rest = &rest[size..],
            Ok(None) => return Ok(()),
            Err(error) => return Err(error),
        }
    }
    Ok(())
}

/// How many instructions the prolog has: one for each code before the first `end_c`.
pub(crate) fn prolog_length(codes: &[u8]) -> usize
    ensures { (cs : List Arm64UnwindCode) →
        CodesThen AreOver codes.now cs → result ≡ prolog_length cs }
{
    let mut rest = codes;
    let mut length = 0;
    while !rest.is_empty() {
        match first_code(rest, 0) {
            Ok(Some((code, size))) => {
                if is_end_c(code) {
                    return length;
                }
                rest = &rest[size..];
            }
            Ok(None) => return length,
            Err(_) => return length,
        }
        length += 1;
    }
    length
}

/// The bytes of the codes after the first ones, so many at most.
pub(crate) fn after_codes(codes: &[u8], count: usize) -> &[u8]
    ensures { (cs : List Arm64UnwindCode) → CodesThen AreOver codes.now cs →
        CodesThen AreOver result.now (drop count cs) }
{
    let mut rest = codes;
    for _ in 0..count {
        match first_code(rest, 0) {
            Ok(Some((_, size))) => rest = &rest[size..],
            Ok(None) => return rest,
            Err(_) => return rest,
        }
    }
    rest
}

/// Makes the registers those before what the instruction of a code did, and those of so many `save_next` that stand before it.
fn undo_code<M: Memory>(
    nexts: usize,
    code: Arm64UnwindCode,
    registers: &mut Arm64Registers,
    memory: &M,
) -> Result<(), FrameError>
    requires { is_save_next code ≡ false }
    ensures { changed result registers.new
        ≡ undone_codes (M.word memory.now) (with_nexts nexts (code ∷ [])) registers.old }
{
    let mut count = nexts;
    while count > 0 {
        undo_save_next(count, code, registers, memory)?;
        count -= 1;
    }
    match operation_of(code) {
        Some(operation) => undo_operation(operation, registers, memory),
        None => undo_custom(code, registers, memory),
    }
}

/// The registers before what the instructions of these codes did. `require_codes` has found that none is truncated.
pub(crate) fn undo_codes<M: Memory>(
    codes: &[u8],
    registers: Arm64Registers,
    memory: &M,
) -> Result<Arm64Registers, FrameError>
    ensures { (cs : List Arm64UnwindCode) → CodesThen AreOver codes.now cs →
        result ≡ undone_codes (M.word memory.now) cs registers }
{
    let mut current = registers;
    let mut rest = codes;
    let mut nexts = 0;
    while let Some((code, size)) = first_code(rest, 0)? {
        rest = &rest[size..];
        if is_save_next(code) {
            nexts += 1;
        } else {
            undo_code(nexts, code, &mut current, memory)?;
            nexts = 0;
        }
    }
    if nexts > 0 {
        return Err(FrameError::Arm64Code(Arm64UnwindCode::SaveNext));
    }
    Ok(current)
}

/// The registers before what the instructions of these codes did, none of which is `save_next`.
pub(crate) fn undo_each<M: Memory>(
    codes: &[Arm64UnwindCode],
    registers: Arm64Registers,
    memory: &M,
) -> Result<Arm64Registers, FrameError>
    requires { All (λ c. is_save_next c ≡ false) codes.now }
    ensures { result ≡ undone_codes (M.word memory.now) codes.now registers }
{
    let mut current = registers;
    for code in codes {
        undo_code(0, *code, &mut current, memory)?;
    }
    Ok(current)
}
