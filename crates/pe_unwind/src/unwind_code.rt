//! x64 unwind codes (`UNWIND_CODE`): what the prolog did, one code for each operation, the last operation first. A
//! code has 1 to 3 slots of 2 bytes. A caller iterates over the codes of a record and undoes those that have run. See
//! [x64 exception handling](https://learn.microsoft.com/cpp/build/exception-handling-x64).

ghost use Rattle.std.specs.Prelude.{◌≡◌, ◌*◌, ◌/◌, ◌%◌, ◌<◌, ◌≤◌, ℕ, length, IfOk, IfErr, IfSome, OnErr, Some, min, slice_index};
ghost use Rattle.std.specs.Iterator.{at_most, UpTo};
ghost use Rattle.std.specs.Iterator.SizeHint.{IsWithinCount};
ghost use Rattle.std.specs.Option.{option_map};
ghost use Rattle.pe_core.specs.Refusals.{kind_of};
ghost use Rattle.pe_unwind.specs.UnwindCodes.{StartsWithCode, StartsWithNoCode, IsCodeRefusal, offset};
ghost use Rattle.pe_unwind.specs.CodeSlots.{slots_at, slots_of, with_operand, IsFirstSlot};
ghost use Rattle.pe_unwind.specs.CodeStream.{stream_of, slots_left, ReturnsCode};

use crate::register::Register;
use pe_core::{Error, Reason, Result, read_u16, read_u32};

/// The size of a slot in bytes.
const SIZE_OF_SLOT: usize = 2;

// The opcodes, by winnt.h's names. In records of version 1 opcodes 6 and 7 save an XMM register.
const UWOP_PUSH_NONVOL: u8 = 0;

const UWOP_ALLOC_LARGE: u8 = 1;

const UWOP_ALLOC_SMALL: u8 = 2;

const UWOP_SET_FPREG: u8 = 3;

const UWOP_SAVE_NONVOL: u8 = 4;

const UWOP_SAVE_NONVOL_FAR: u8 = 5;

const UWOP_EPILOG: u8 = 6;

const UWOP_SPARE_CODE: u8 = 7;

const UWOP_SAVE_XMM128: u8 = 8;

const UWOP_SAVE_XMM128_FAR: u8 = 9;

const UWOP_PUSH_MACHFRAME: u8 = 10;

/// Where a register is saved: an offset in bytes, and the register from which it counts.
#[derive(Clone, Copy, Debug, PartialEq, Eq)]
pub enum StackFrameOffset {
    /// From the stack pointer.
    RSP(u32),
    /// From the frame register minus the record's `frame_register_offset`, which is 16 * the frame offset in the file:
    /// the stack pointer as it was when `SetFPRegister` ran. Until `SetFPRegister` has run, the offset counts from the
    /// stack pointer.
    FP(u32),
}

/// An operation of the prolog, named by what it did.
#[derive(Clone, Copy, Debug, PartialEq, Eq)]
pub enum UnwindOperation {
    /// Pushed an integer register (`UWOP_PUSH_NONVOL`).
    PushNonVolatile(Register),
    /// Allocated this many bytes on the stack (`UWOP_ALLOC_SMALL`, `UWOP_ALLOC_LARGE`).
    Alloc(u32),
    /// Set the frame register to the stack pointer plus the record's `frame_register_offset` (`UWOP_SET_FPREG`).
    SetFPRegister,
    /// Saved an integer register (`UWOP_SAVE_NONVOL`, `UWOP_SAVE_NONVOL_FAR`). Subtract the record's
    /// `frame_register_offset` from the frame register before you add an `FP` offset; until `SetFPRegister` has run,
    /// add it to the stack pointer.
    SaveNonVolatile(Register, StackFrameOffset),
    /// Saved the low half of an XMM register (opcode 6 in version 1). The offset counts as that of `SaveNonVolatile`.
    SaveXMM(Register, StackFrameOffset),
    /// Describes the function's epilogs (`UWOP_EPILOG`, version 2): the first of these codes their size and flags,
    /// each other the position of one.
    Epilog {
        /// The first byte of the code: a size in the first of these codes, else the low bits of an epilog's offset.
        offset_low_or_size: u8,
        /// The operation info, 4 bits: flags in the first of these codes, else the high bits of an epilog's offset.
        offset_high_or_flags: u8,
    },
    /// Saved an XMM register (`UWOP_SAVE_XMM128`, `UWOP_SAVE_XMM128_FAR`, and opcode 7 in version 1). The offset
    /// counts as that of `SaveNonVolatile`.
    SaveXMM128(Register, StackFrameOffset),
    /// Pushed a machine frame (`UWOP_PUSH_MACHFRAME`); `true` if it has an error code.
    PushMachineFrame(bool),
    /// Did nothing (opcode 7 in version 2).
    Noop,
}

/// An unwind code: an operation of the prolog, and where its instruction ends.
#[derive(Clone, Copy, Debug, PartialEq, Eq)]
pub struct UnwindCode {
    /// The end of the instruction, in bytes from the start of the prolog.
    pub code_offset: u8,
    /// What the instruction did.
    pub operation: UnwindOperation,
}

/// An offset from the stack pointer or, if the record has a frame register, from the frame.
fn frame_offset(frame_register: Register, value: u32) -> StackFrameOffset
    ensures { result ≡ offset frame_register.0 value }
{
    if frame_register.0 == 0 {
        StackFrameOffset::RSP(value)
    } else {
        StackFrameOffset::FP(value)
    }
}

/// What the operand of a code says, which is in the slots after the first one.
#[derive(Clone, Copy)]
enum Operand {
    /// How many bytes of the stack are allocated.
    StackSize,
    /// Where this integer register is saved.
    Integer(Register),
    /// Where the low half of this XMM register is saved.
    HalfOfXMM(Register),
    /// Where this XMM register is saved.
    XMM(Register),
    /// Nothing.
    Unused,
}

impl Operand {
    /// The operation that has this operand, in bytes.
    fn operation(self, frame_register: Register, value: u32) -> UnwindOperation
        ensures { result ≡ with_operand self frame_register.0 value }
    {
        let offset = frame_offset(frame_register, value);
        match self {
            Operand::StackSize => UnwindOperation::Alloc(value),
            Operand::Integer(register) => UnwindOperation::SaveNonVolatile(register, offset),
            Operand::HalfOfXMM(register) => UnwindOperation::SaveXMM(register, offset),
            Operand::XMM(register) => UnwindOperation::SaveXMM128(register, offset),
            Operand::Unused => UnwindOperation::Noop,
        }
    }
}

/// What the first slot of a code says.
#[derive(Clone, Copy)]
enum FirstSlot {
    /// The operation. No slots follow.
    Whole(UnwindOperation),
    /// One slot follows: an operand that counts units of so many bytes.
    Scaled(Operand, u8),
    /// Two slots follow: an operand in bytes.
    Long(Operand),
}

impl FirstSlot {
    /// How many slots the code has.
    fn slots(self) -> usize
        ensures value { result ≡ slots_of self }
        ensures most { result ≤ 3 }
    {
        match self {
            FirstSlot::Whole(_) => 1,
            FirstSlot::Scaled(_, _) => 2,
            FirstSlot::Long(_) => 3,
        }
    }
}

/// What the first slot of a code says, by its two bytes. `None` if no code starts so.
fn first_slot(version: u8, code_offset: u8, second: u8) -> Option<FirstSlot>
    ensures slots { option_map slots_of result ≡ slots_at version (second % 16) (second / 16) }
    ensures says { IfSome result (IsFirstSlot version code_offset second) }
{
    let info = second / 16;
    let integer = Register(info);
    let xmm = Register(info + 17);
    match second % 16 {
        UWOP_PUSH_NONVOL => Some(FirstSlot::Whole(UnwindOperation::PushNonVolatile(integer))),
        UWOP_ALLOC_LARGE if info == 0 => Some(FirstSlot::Scaled(Operand::StackSize, 8)),
        UWOP_ALLOC_LARGE if info == 1 => Some(FirstSlot::Long(Operand::StackSize)),
        UWOP_ALLOC_SMALL => {
            let size = u32::from(info) * 8 + 8;
            Some(FirstSlot::Whole(UnwindOperation::Alloc(size)))
        }
        UWOP_SET_FPREG => Some(FirstSlot::Whole(UnwindOperation::SetFPRegister)),
        UWOP_SAVE_NONVOL => Some(FirstSlot::Scaled(Operand::Integer(integer), 8)),
        UWOP_SAVE_NONVOL_FAR => Some(FirstSlot::Long(Operand::Integer(integer))),
        UWOP_EPILOG if version == 1 => Some(FirstSlot::Scaled(Operand::HalfOfXMM(xmm), 16)),
        UWOP_EPILOG if version == 2 => Some(FirstSlot::Whole(UnwindOperation::Epilog {
            offset_low_or_size: code_offset,
            offset_high_or_flags: info,
        })),
        UWOP_SPARE_CODE if version == 1 => Some(FirstSlot::Long(Operand::XMM(xmm))),
        UWOP_SPARE_CODE if version == 2 => Some(FirstSlot::Long(Operand::Unused)),
        UWOP_SAVE_XMM128 => Some(FirstSlot::Scaled(Operand::XMM(xmm), 16)),
        UWOP_SAVE_XMM128_FAR => Some(FirstSlot::Long(Operand::XMM(xmm))),
        UWOP_PUSH_MACHFRAME if info < 2 => {
            let has_error = info == 1;
            Some(FirstSlot::Whole(UnwindOperation::PushMachineFrame(has_error)))
        }
        _ => None,
    }
}

/// The operation of a code that starts with this slot, and all of whose slots are there.
fn operation_at(first: FirstSlot, frame_register: Register, bytes: &[u8]) -> UnwindOperation
    requires { 2 * slots_of first ≤ length bytes.now }
    ensures { (v : ℕ) → IsFirstSlot v (slice_index bytes.now 0) (slice_index bytes.now 1) first →
        StartsWithCode v frame_register.0 bytes.now
        (record { code_offset = slice_index bytes.now 0; operation = result })
        (2 * slots_of first) }
{
    match first {
        FirstSlot::Whole(operation) => operation,
        FirstSlot::Scaled(operand, unit) => {
            let count = u32::from(read_u16(bytes, SIZE_OF_SLOT));
            operand.operation(frame_register, count * u32::from(unit))
        }
        FirstSlot::Long(operand) => {
            operand.operation(frame_register, read_u32(bytes, SIZE_OF_SLOT))
        }
    }
}

/// The code at the start of the bytes, and its size in bytes. Errors: `Short` if the first slot is truncated; `UnwindCode`
/// if no code starts so; `Short` if a later slot is missing.
fn code_at(version: u8, frame_register: Register, bytes: &[u8]) -> Result<(UnwindCode, usize)>
    requires some { 0 < length bytes.now }
    ensures ok { IfOk result (λ x. StartsWithCode version frame_register.0 bytes.now x.0 x.1) }
    ensures len { IfOk result (λ x. (2 ≤ x.1) × (x.1 ≤ length bytes.now)) }
    ensures none { OnErr result (StartsWithNoCode version frame_register.0 bytes.now) }
    ensures refusal { IfErr result (λ e.
        IsCodeRefusal version frame_register.0 bytes.now (kind_of e)) }
{
    if bytes.len() < SIZE_OF_SLOT {
        return Err(Error::Short {
            at: 0,
            needed: SIZE_OF_SLOT,
        });
    }
    let Some(first) = first_slot(version, bytes[0], bytes[1]) else {
        return Err(Error::Malformed(Reason::UnwindCode(bytes[1])));
    };
    let len = SIZE_OF_SLOT * first.slots();
    if bytes.len() < len {
        return Err(Error::Short { at: 0, needed: len });
    }
    let code = UnwindCode {
        code_offset: bytes[0],
        operation: operation_at(first, frame_register, bytes),
    };
    Ok((code, len))
}

/// The codes that are left of an unwind record. An item is `Short` if the code is truncated, or `UnwindCode` if it is
/// invalid; after an error the iterator is over.
#[derive(Clone, Debug, Drop)]
pub struct UnwindCodeIterator<'a> {
    bytes: &'a [u8],
    version: u8,
    frame_register: Register,
}

impl<'a> UnwindCodeIterator<'a> {
    /// The codes of these bytes, which are read by the version and the frame register of their record.
    pub fn new(bytes: &'a [u8], version: u8, frame_register: Register) -> Self
        ensures { stream_of result
            ≡ record { content = bytes.entry.now; version = version; frame = frame_register.0 } }
    {
        UnwindCodeIterator {
            bytes,
            version,
            frame_register,
        }
    }

    /// How many bytes of codes are left.
    pub fn bytes_left(&self) -> usize
        ensures { result ≡ length (stream_of self.now).content }
    {
        self.bytes.len()
    }
}

impl<'a> Iterator for UnwindCodeIterator<'a> {
    type Item = Result<UnwindCode>;

    ghost next_gives = { λ s r t. ReturnsCode (stream_of s) r (stream_of t) };

    ghost remaining = { λ s. at_most (slots_left (stream_of s)) };

    /// 0 items if nothing is left, else at least one; at most one for each slot that is left.
    fn size_hint(&self) -> (usize, Option<usize>)
        ensures lower { IsWithinCount result.0 (at_most (slots_left (stream_of self.now))) }
        ensures upper { IfSome result.1 (UpTo (at_most (slots_left (stream_of self.now)))) }
        ensures least { result.0 ≡ min (slots_left (stream_of self.now)) 1 }
        ensures slots { result.1 ≡ Some (slots_left (stream_of self.now)) }
    {
        let slots = self.bytes.len().div_ceil(SIZE_OF_SLOT);
        (slots.min(1), Some(slots))
    }

    fn next(&mut self) -> Option<Result<UnwindCode>> {
        let bytes = self.bytes;
        if bytes.is_empty() {
            return None;
        }
        match code_at(self.version, self.frame_register, bytes) {
            Ok((code, len)) => {
                self.bytes = bytes.split_at(len).1;
                Some(Ok(code))
            }
            Err(error) => {
                // After an error nothing is left, so the iterator is over.
                self.bytes = bytes.split_at(bytes.len()).1;
                Some(Err(error))
            }
        }
    }
}
