//! What the instruction of each ARM64 unwind code did: the table of codes.

ghost use Rattle.std.specs.Prelude.{◌≡◌, ◌-◌, ◌<◌, IfSome, if◌then◌else◌, Some, None};
ghost use Rattle.pe_frame.specs.declared.arm64.operation.Arm64Register.TheVariants.{D};
ghost use Rattle.pe_frame.specs.Arm64Operations.{register_after, is_register, save, save_pair, save_with_link, float_operation, save_operation, any_register, any_operation, operation_of, is_save_next};

use pe_unwind::Arm64UnwindCode;

/// How many integer registers there are, how many vectors, and how many floating-point registers a function preserves.
const INTEGER_REGISTERS: u8 = 31;

const VECTORS: u8 = 32;

const PRESERVED_FLOATS: u8 = 8;

/// The number of the first floating-point register that a function preserves, d8.
const FIRST_FLOAT: u8 = 8;

/// A register that a prolog stores.
#[derive(Clone, Copy)]
pub(crate) enum Arm64Register {
    /// x0 to x30.
    X(u8),
    /// d8 to d15, by 0 to 7.
    D(u8),
}

/// What an instruction of a prolog did. Where it moved the stack pointer and stored registers, it moved first, and offsets
/// count from there. All are in bytes.
#[derive(Clone, Copy)]
pub(crate) enum Arm64Operation {
    /// Moved the stack pointer down.
    Allocate(u32),
    /// Moved the stack pointer down, and stored a register above it.
    Save {
        register: Arm64Register,
        offset: u32,
        moved: u32,
    },
    /// The same of a register and, eight bytes above it, the next one.
    SavePair {
        first: Arm64Register,
        second: Arm64Register,
        offset: u32,
        moved: u32,
    },
    /// Stored a register, and the link register eight bytes above it.
    SaveWithLink {
        register: Arm64Register,
        offset: u32,
    },
    /// Stored two registers, the second so many bytes above the first, of which those that are there are restored.
    SaveEach {
        first: Option<Arm64Register>,
        second: Option<Arm64Register>,
        offset: u32,
        apart: u32,
    },
    /// Set x29 so far above the stack pointer.
    SetFrame(u32),
    /// Signed the link register.
    Sign,
    /// Nothing that is to be undone.
    Nothing,
}

/// Whether there is a register of this number.
fn is_register(register: Arm64Register) -> bool
    ensures { result ≡ is_register register }
{
    match register {
        Arm64Register::X(number) => number < INTEGER_REGISTERS,
        Arm64Register::D(number) => number < PRESERVED_FLOATS,
    }
}

/// The register so many after another, if there is one.
pub(crate) fn register_after(register: Arm64Register, count: u64) -> Option<Arm64Register>
    ensures value { result ≡ (if is_register (register_after count register)
        then Some (register_after count register) else None) }
    ensures near { IfSome result (λ _. count < 31) }
{
    match register {
        Arm64Register::X(number) => {
            let sum = u64::from(number).saturating_add(count);
            if sum < u64::from(INTEGER_REGISTERS) {
                Some(Arm64Register::X(sum as u8))
            } else {
                None
            }
        }
        Arm64Register::D(number) => {
            let sum = u64::from(number).saturating_add(count);
            if sum < u64::from(PRESERVED_FLOATS) {
                Some(Arm64Register::D(sum as u8))
            } else {
                None
            }
        }
    }
}

/// How the address of a store was made: so far above the stack pointer, after that itself moved so far down.
#[derive(Clone, Copy)]
struct Addressing {
    offset: u32,
    moved: u32,
}

/// So far above a stack pointer that did not move: `[sp, #offset]`.
fn at_offset(offset: u32) -> Addressing
    ensures { result ≡ record { offset = offset; moved = 0 } }
{
    Addressing { offset, moved: 0 }
}

/// At a stack pointer that moved so far down: `[sp, #-moved]!`.
fn preindexed(moved: u32) -> Addressing
    ensures { result ≡ record { offset = 0; moved = moved } }
{
    Addressing { offset: 0, moved }
}

/// A register was stored.
fn save(register: Arm64Register, addressing: Addressing) -> Option<Arm64Operation>
    ensures { result ≡ save register addressing.offset addressing.moved }
{
    let Addressing { offset, moved } = addressing;
    if is_register(register) {
        Some(Arm64Operation::Save {
            register,
            offset,
            moved,
        })
    } else {
        None
    }
}

/// A register and the next one were stored.
fn save_pair(first: Arm64Register, addressing: Addressing) -> Option<Arm64Operation>
    ensures { result ≡ save_pair first addressing.offset addressing.moved }
{
    let Addressing { offset, moved } = addressing;
    match register_after(first, 1) {
        Some(second) => Some(Arm64Operation::SavePair {
            first,
            second,
            offset,
            moved,
        }),
        None => None,
    }
}

/// A register and the link register were stored.
fn save_with_link(register: Arm64Register, offset: u32) -> Option<Arm64Operation>
    ensures { result ≡ save_with_link register offset }
{
    if is_register(register) {
        Some(Arm64Operation::SaveWithLink { register, offset })
    } else {
        None
    }
}

/// A floating-point register by its number in a code, which is 8 or more.
fn float(number: u8) -> Arm64Register
    ensures { result ≡ D (number - 8) }
{
    Arm64Register::D(number.saturating_sub(FIRST_FLOAT))
}

/// The codes that store floating-point registers.
fn float_operation(code: Arm64UnwindCode) -> Option<Arm64Operation>
    ensures { result ≡ float_operation code }
{
    match code {
        Arm64UnwindCode::SaveFRegPair {
            first_reg,
            offset_bytes,
        } => save_pair(float(first_reg), at_offset(offset_bytes)),
        Arm64UnwindCode::SaveFRegPairPreindexed {
            first_reg,
            offset_bytes,
        } => save_pair(float(first_reg), preindexed(offset_bytes)),
        Arm64UnwindCode::SaveFReg { reg, offset_bytes } => save(
            float(reg),
            at_offset(offset_bytes),
        ),
        Arm64UnwindCode::SaveFRegPreindexed { reg, offset_bytes } => {
            save(float(reg), preindexed(offset_bytes))
        }
        _ => None,
    }
}

/// The codes that store registers.
fn save_operation(code: Arm64UnwindCode) -> Option<Arm64Operation>
    ensures { result ≡ save_operation code }
{
    match code {
        Arm64UnwindCode::SaveR19R20Preindexed { offset_bytes } => {
            save_pair(Arm64Register::X(19), preindexed(offset_bytes))
        }
        Arm64UnwindCode::SaveFpLr { offset_bytes } => {
            save_pair(Arm64Register::X(29), at_offset(offset_bytes))
        }
        Arm64UnwindCode::SaveFpLrPreindexed { offset_bytes } => {
            save_pair(Arm64Register::X(29), preindexed(offset_bytes))
        }
        Arm64UnwindCode::SaveRegPair {
            first_reg,
            offset_bytes,
        } => save_pair(Arm64Register::X(first_reg), at_offset(offset_bytes)),
        Arm64UnwindCode::SaveRegPairPreindexed {
            first_reg,
            offset_bytes,
        } => save_pair(Arm64Register::X(first_reg), preindexed(offset_bytes)),
        Arm64UnwindCode::SaveReg { reg, offset_bytes } => {
            save(Arm64Register::X(reg), at_offset(offset_bytes))
        }
        Arm64UnwindCode::SaveRegPreindexed { reg, offset_bytes } => {
            save(Arm64Register::X(reg), preindexed(offset_bytes))
        }
        Arm64UnwindCode::SaveLrPair {
            first_reg,
            offset_bytes,
        } => save_with_link(Arm64Register::X(first_reg), offset_bytes),
        _ => float_operation(code),
    }
}

/// The kinds of registers that `save_any_reg` has: integer registers, and vectors.
const INTEGER: u8 = 0;

const VECTOR: u8 = 2;

/// A register of `save_any_reg`, by its kind and its number there.
#[derive(Clone, Copy)]
struct AnyRegister {
    kind: u8,
    number: u8,
}

/// The register that is restored from a slot with this one.
fn any_register(register: AnyRegister) -> Option<Arm64Register>
    ensures { result ≡ any_register register.kind register.number }
{
    let AnyRegister { kind, number } = register;
    if kind == INTEGER {
        return Some(Arm64Register::X(number));
    }
    if FIRST_FLOAT <= number && number < FIRST_FLOAT + PRESERVED_FLOATS {
        Some(float(number))
    } else {
        None
    }
}

/// The store of `save_any_reg`. `None` where there is no such register, and of a preindexed store.
fn any_operation(
    kind: u8,
    pair: bool,
    preindexed: bool,
    number: u8,
    offset: u32,
) -> Option<Arm64Operation>
    ensures { result ≡ any_operation kind pair preindexed number offset }
{
    let count = if kind == INTEGER {
        INTEGER_REGISTERS
    } else {
        VECTORS
    };
    let last = u16::from(number) + if pair { 1 } else { 0 };
    if preindexed || last >= u16::from(count) {
        return None;
    }
    let second = if pair {
        let number = number + 1;
        any_register(AnyRegister { kind, number })
    } else {
        None
    };
    Some(Arm64Operation::SaveEach {
        first: any_register(AnyRegister { kind, number }),
        second,
        offset,
        apart: if kind == VECTOR { 16 } else { 8 },
    })
}

/// What the instruction of a code did. `None` of `save_next`, which depends on the codes after it, of a code that is not
/// undone, and of one for a register that there is not.
pub(crate) fn operation_of(code: Arm64UnwindCode) -> Option<Arm64Operation>
    ensures { result ≡ operation_of code }
{
    match code {
        Arm64UnwindCode::AllocSmall { size_bytes }
        | Arm64UnwindCode::AllocMedium { size_bytes }
        | Arm64UnwindCode::AllocLarge { size_bytes } => Some(Arm64Operation::Allocate(size_bytes)),
        Arm64UnwindCode::SetFp => Some(Arm64Operation::SetFrame(0)),
        Arm64UnwindCode::AddFp { offset_bytes, .. } => Some(Arm64Operation::SetFrame(offset_bytes)),
        Arm64UnwindCode::PacSignLr => Some(Arm64Operation::Sign),
        Arm64UnwindCode::SaveAnyReg {
            kind,
            pair,
            preindexed,
            reg,
            offset_bytes,
        } => any_operation(kind, pair, preindexed, reg, offset_bytes),
        Arm64UnwindCode::Nop | Arm64UnwindCode::End | Arm64UnwindCode::EndC => {
            Some(Arm64Operation::Nothing)
        }
        _ => save_operation(code),
    }
}

/// Whether a code is `save_next`.
pub(crate) fn is_save_next(code: Arm64UnwindCode) -> bool
    ensures { result ≡ is_save_next code }
{
    match code {
        Arm64UnwindCode::SaveNext => true,
        _ => false,
    }
}
