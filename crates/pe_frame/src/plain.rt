//! Steps by plain records: those that are chained to none, have no frame register, and whose codes pushed or saved an integer register
//! or allocated stack, as nearly all have ([Microsoft's page](https://learn.microsoft.com/cpp/build/exception-handling-x64#unwind-codes)).
//!
//! After the prolog of such a function nothing has to be known of its codes before the first of them is undone, and of the registers
//! the integer registers and the instruction pointer alone change. So a step by a plain record is made where the integer registers are,
//! and a caller for whom it is refused puts back these alone: why it is refused other steps find out.

ghost use Rattle.std.specs.Prelude.{◌≡◌, ◌<◌, ◌≤◌, ◌-◌, ℕ, Ok, Some, None, IfSome, IsTrue, false, []};
ghost use Rattle.pe_unwind.specs.UnwindRecord.{unwind_view};
ghost use Rattle.pe_frame.specs.FunctionSteps.{StepsInFunction};
ghost use Rattle.pe_frame.specs.PlainRecords.{IsPlain, Loads, Returns, plain_stream, with_general};
ghost use Rattle.pe_frame.specs.Survey.{UndoesFirst};
ghost use Rattle.pe_frame.specs.Undoing.{raised, undone};
ghost use Rattle.pe_frame.specs.declared.registers.Registers.{Registers};

use crate::frequent::{SIZE_OF_SLOT, frequent_code};
use crate::jump::{ImageFunctions, record_of};
use crate::memory::{Memory, SIZE_OF_WORD};
use crate::registers::RSP;
use crate::undo::{Distance, above, bytes_above};
use pe_core::{RvaMap, read_u16};
use pe_unwind::{Register, RuntimeFunction, StackFrameOffset, UnwindInfo, UnwindOperation};

/// The opcode of a code that saved an integer register, by winnt.h's name.
const UWOP_SAVE_NONVOL: u8 = 4;

/// The operation of the code at the start of the bytes of a record without a frame register, and its size, if it is one of a plain
/// record.
#[inline(always)]
fn plain_code(bytes: &[u8]) -> Option<(UnwindOperation, usize)>
    ensures code { IfSome result (λ found. IsPlain bytes.now found.0 found.1) }
    ensures some { IfSome result (λ found. 0 < found.1) }
{
    if let Some(found) = frequent_code(bytes) {
        return Some(found);
    }
    if bytes.len() < 2 * SIZE_OF_SLOT || bytes[1] % 16 != UWOP_SAVE_NONVOL {
        return None;
    }
    let offset = u32::from(read_u16(bytes, SIZE_OF_SLOT)) * 8;
    let register = Register(bytes[1] / 16);
    let save = UnwindOperation::SaveNonVolatile(register, StackFrameOffset::RSP(offset));
    Some((save, 2 * SIZE_OF_SLOT))
}

/// Raises the stack pointer, if the sum fits.
#[inline(always)]
fn raise_pointer(by: u64, general: &mut [u64; 16]) -> bool
    ensures { (g : Registers) → IsTrue result →
        raised by (with_general g general.old) ≡ Ok (with_general g general.new) }
{
    match above(general[RSP], Distance(by)) {
        Ok(sum) => {
            general[RSP] = sum;
            true
        }
        Err(_) => false,
    }
}

/// Loads an integer register with the word at an address, if that is known.
#[inline(always)]
fn load<M: Memory>(register: Register, address: u64, general: &mut [u64; 16], memory: &M) -> bool
    ensures { IsTrue result →
        Loads (M.word memory.now) address register.0 general.old general.new }
{
    let index = usize::from(register.0);
    match memory.u64_at(address) {
        Some(value) if index < 16 => {
            general[index] = value;
            true
        }
        _ => false,
    }
}

/// Makes the integer registers those before an operation of a plain record. False where it is refused: then they mean nothing.
#[inline(always)]
fn undo_plain<M: Memory>(
    operation: UnwindOperation,
    base: u64,
    general: &mut [u64; 16],
    memory: &M,
) -> bool
    ensures { (g : Registers) → IsTrue result →
        undone (M.word memory.now) base operation (with_general g general.old) ≡ Ok (with_general g general.new) }
{
    match operation {
        UnwindOperation::PushNonVolatile(register) => {
            if !load(register, general[RSP], general, memory) {
                return false;
            }
            raise_pointer(SIZE_OF_WORD, general)
        }
        UnwindOperation::Alloc(size) => raise_pointer(u64::from(size), general),
        UnwindOperation::SaveNonVolatile(register, offset) => {
            match above(base, Distance(bytes_above(offset))) {
                Ok(address) => load(register, address, general, memory),
                Err(_) => false,
            }
        }
        _ => false,
    }
}

/// Makes the integer registers those before the codes of a plain record, all of which have run. False where one is not plain or
/// refused: then they mean nothing.
#[inline(always)]
fn undo_all_plain<M: Memory>(codes: &[u8], base: u64, general: &mut [u64; 16], memory: &M) -> bool
    ensures { (v : ℕ) (g : Registers) → IsTrue result →
        UndoesFirst (M.word memory.now) base None (plain_stream v codes.now) (plain_stream v [])
        (with_general g general.old) (Ok (with_general g general.new)) }
{
    let mut rest = codes;
    while let Some((operation, size)) = plain_code(rest) {
        rest = rest.split_at(size).1;
        if !undo_plain(operation, base, general, memory) {
            return false;
        }
    }
    rest.is_empty()
}

/// Pops the return address, if it is known. The stack pointer was this one before the codes were undone.
#[inline(always)]
fn pop_plain<M: Memory>(stack_pointer: u64, general: &mut [u64; 16], memory: &M) -> Option<u64>
    ensures { (g : Registers) → IfSome result (λ rip.
        Returns (M.word memory.now) stack_pointer rip (with_general g general.old) (with_general g general.new)) }
{
    let rip = memory.u64_at(general[RSP])?;
    if !raise_pointer(SIZE_OF_WORD, general) || general[RSP] <= stack_pointer {
        return None;
    }
    Some(rip)
}

/// Whether a record may be plain, by all but its codes, and an offset is one after its prolog.
#[inline(always)]
fn may_be_plain(info: &UnwindInfo<'_>, offset: u32) -> bool
    ensures chained { IsTrue result → (unwind_view info.now).chained_info ≡ None }
    ensures frame { IsTrue result → ((unwind_view info.now).frame_register).0 ≡ 0 }
    ensures prolog { IsTrue result → (unwind_view info.now).size_of_prolog ≤ offset }
{
    info.chained_info.is_none()
        && info.frame_register.0 == 0
        && u32::from(info.size_of_prolog) <= offset
}

/// Makes the integer registers those of a function's caller, and returns its instruction pointer, from those at an RVA in the function
/// at which it has called, so that no epilog has begun: what [`step_in_function_in_place`](crate::step_in_function_in_place) makes them
/// without code. The XMM registers stay, and no interrupt left them.
///
/// `None` where the function's record is not plain, and where the step is refused: then the integer registers mean nothing. What is
/// proved is that it returns no other step. No clause says where it is `None`: a caller steps the general way then.
#[inline(always)]
pub fn step_by_plain_record<R: RvaMap, M: Memory>(
    functions: &ImageFunctions<'_, R>,
    function: RuntimeFunction,
    rva: u32,
    general: &mut [u64; 16],
    memory: &M,
) -> Option<u64>
    ensures { (g : Registers) → IfSome result (λ rip.
        StepsInFunction functions.now.exceptions.now (R.offset functions.now.map.now) (M.word memory.now)
        function rva [] (with_general g general.old)
        (Ok (Some (Ok (record (with_general g general.new) { rip = rip }, false))))) }
{
    let Ok(info) = record_of(functions, function) else {
        return None;
    };
    if !may_be_plain(&info, rva.saturating_sub(function.begin_address)) {
        return None;
    }
    let stack_pointer = general[RSP];
    if !undo_all_plain(info.code_bytes(), stack_pointer, general, memory) {
        return None;
    }
    pop_plain(stack_pointer, general, memory)
}
