//! Undoing the codes of an unwind record.

ghost use Rattle.std.specs.Prelude.{◌≡◌, List, Ok, IfSome, map};
ghost use Rattle.pe_frame.specs.declared.registers.Registers.{Registers};
ghost use Rattle.pe_unwind.specs.declared.unwind_code.UnwindCode.{UnwindCode};
ghost use Rattle.pe_unwind.specs.CodeStream.{AreItems, with_left};
ghost use Rattle.pe_unwind.specs.UnwindRecord.{code_stream, unwind_view};
ghost use Rattle.pe_frame.specs.Undoing.{has_run, sets_frame_register, interrupts, ran, undone_all, frame_base_of};
ghost use Rattle.pe_frame.specs.Steps.{Enters, frame_register_in};
ghost use Rattle.pe_frame.specs.InPlace.{changed, changed_with};
ghost use Rattle.pe_frame.specs.Survey.{IsExpectedBase, SurveysCodes, SurveysUndone, UndoesFirst, survey_with, surveyed_changes, undone_code, undone_next};

use crate::error::FrameError;
use crate::frequent::{FirstUndone, undo_frequent};
use crate::memory::Memory;
use crate::registers::{RSP, Registers};
use crate::undo::{INTEGER_REGISTERS, undo};
use pe_unwind::{UnwindCode, UnwindCodeIterator, UnwindInfo, UnwindOperation};

/// Whether the instruction of a code has run: in the prolog where it ends at or before this offset, after it always.
fn has_run(limit: Option<u32>, code: UnwindCode) -> bool
    ensures { result ≡ has_run limit code }
{
    match limit {
        Some(offset) => u32::from(code.code_offset) <= offset,
        None => true,
    }
}

/// Whether an operation sets the frame register.
fn sets_frame_register(operation: UnwindOperation) -> bool
    ensures { result ≡ sets_frame_register operation }
{
    match operation {
        UnwindOperation::SetFPRegister => true,
        _ => false,
    }
}

/// Whether an operation is that of an interrupt.
fn interrupts(operation: UnwindOperation) -> bool
    ensures { result ≡ interrupts operation }
{
    match operation {
        UnwindOperation::PushMachineFrame(_) => true,
        _ => false,
    }
}

/// What has to be known of a record's codes before the first of them is undone.
#[derive(Clone, Copy)]
struct Survey {
    /// One of them sets the frame register.
    sets_frame_register: bool,
    /// That one has run.
    has_set_frame_register: bool,
    /// One that has run pushes a machine frame.
    is_interrupted: bool,
}

impl Survey {
    /// The same of one code more.
    fn survey_with(self, code: UnwindCode, limit: Option<u32>) -> Survey
        ensures { result ≡ survey_with limit self code }
    {
        let ran = has_run(limit, code);
        let sets = sets_frame_register(code.operation);
        Survey {
            sets_frame_register: self.sets_frame_register || sets,
            has_set_frame_register: self.has_set_frame_register || ran && sets,
            is_interrupted: self.is_interrupted || ran && interrupts(code.operation),
        }
    }
}

/// All codes of a record, surveyed. `Codes` if one is truncated or invalid.
fn survey_codes(info: &UnwindInfo<'_>, limit: Option<u32>) -> Result<Survey, FrameError>
    ensures { SurveysCodes limit (unwind_view info.now) result }
{
    let mut survey = Survey {
        sets_frame_register: false,
        has_set_frame_register: false,
        is_interrupted: false,
    };
    for item in info.unwind_codes() {
        match item {
            Ok(code) => survey = survey.survey_with(code, limit),
            Err(error) => return Err(FrameError::Codes(error)),
        }
    }
    Ok(survey)
}

/// From where the saves of a record count. It is one address for all of them, taken before any is undone.
fn frame_base_of(
    info: &UnwindInfo<'_>,
    survey: Survey,
    registers: &Registers,
) -> Result<u64, FrameError>
    ensures { result ≡ frame_base_of (frame_register_in (unwind_view info.now))
        survey.sets_frame_register survey.has_set_frame_register registers.now }
{
    let register = info.frame_register.0;
    if !survey.has_set_frame_register && (survey.sets_frame_register || register == 0) {
        return Ok(registers.general[RSP]);
    }
    if register == 0 || register >= INTEGER_REGISTERS {
        return Err(FrameError::Operation(UnwindOperation::SetFPRegister));
    }
    let value = registers.general[usize::from(register)];
    match value.checked_sub(u64::from(info.frame_register_offset)) {
        Some(base) => Ok(base),
        None => Err(FrameError::Address(value)),
    }
}

/// How the codes of a record are undone.
#[derive(Clone, Copy)]
struct RecordFrame {
    /// Up to which offset they have run. `None` where all have.
    limit: Option<u32>,
    /// From where its saves count.
    base: u64,
}

/// Makes the registers those before a code, if it has run.
#[inline(always)]
fn undo_code<M: Memory>(
    code: UnwindCode,
    frame: RecordFrame,
    registers: &mut Registers,
    memory: &M,
) -> Result<(), FrameError>
    ensures { changed result registers.new
        ≡ undone_code (M.word memory.now) frame.base frame.limit code registers.old }
{
    if has_run(frame.limit, code) {
        undo(code.operation, frame.base, registers, memory)
    } else {
        Ok(())
    }
}

/// Makes the registers those before the codes of a record that have run. The survey has found that none is invalid.
fn undo_codes<M: Memory>(
    info: &UnwindInfo<'_>,
    frame: RecordFrame,
    registers: &mut Registers,
    memory: &M,
) -> Result<(), FrameError>
    ensures { (codes : List UnwindCode) → AreItems (code_stream (unwind_view info.now))
        (map Ok codes) → changed result registers.new
        ≡ undone_all (M.word memory.now) frame.base (ran frame.limit codes) registers.old }
{
    for item in info.unwind_codes() {
        let code = match item {
            Ok(code) => code,
            Err(refusal) => return Err(FrameError::Codes(refusal)),
        };
        undo_code(code, frame, registers, memory)?;
    }
    Ok(())
}

/// Makes the registers those where the code of a record was entered, by two passes over its codes: the base may depend on those
/// that have not run. Out of line, as only prologs under a frame register need it.
#[inline(never)]
fn enter_in_prolog<M: Memory>(
    info: &UnwindInfo<'_>,
    limit: Option<u32>,
    registers: &mut Registers,
    memory: &M,
) -> Result<bool, FrameError>
    ensures { Enters (M.word memory.now) limit (unwind_view info.now) registers.old
        (changed_with result registers.new) }
{
    let survey = survey_codes(info, limit)?;
    let base = frame_base_of(info, survey, registers)?;
    undo_codes(info, RecordFrame { limit, base }, registers, memory)?;
    Ok(survey.is_interrupted)
}

/// The base of the frame where it does not depend on the codes, but that one which has run may set a frame register that the
/// record does not have. `None` where it may depend on them, or there is none.
fn expected_base(info: &UnwindInfo<'_>, limit: Option<u32>, registers: &Registers) -> Option<u64>
    ensures { IfSome result (IsExpectedBase limit (frame_register_in (unwind_view info.now)) registers.now) }
{
    let register = info.frame_register.0;
    if register == 0 {
        return Some(registers.general[RSP]);
    }
    if limit.is_some() || register >= INTEGER_REGISTERS {
        return None;
    }
    registers.general[usize::from(register)].checked_sub(u64::from(info.frame_register_offset))
}

/// Undoes a code if none before it was refused.
#[inline(always)]
fn undo_next<M: Memory>(
    left: Result<(), FrameError>,
    code: UnwindCode,
    frame: RecordFrame,
    registers: &mut Registers,
    memory: &M,
) -> Result<(), FrameError>
    ensures { changed result registers.new ≡ undone_next
        (M.word memory.now) frame.base frame.limit code (changed left registers.old) }
{
    match left {
        Ok(()) => undo_code(code, frame, registers, memory),
        Err(error) => Err(error),
    }
}

/// Makes the registers those before the codes of a record that have run, in the pass that surveys them, after codes that were undone
/// before it. After one that is refused the others are surveyed alone, as an invalid code is reported first. Out of line, as few
/// records have codes that are not frequent.
#[inline(never)]
fn undo_rest<M: Memory>(
    info: &UnwindInfo<'_>,
    frame: RecordFrame,
    first: FirstUndone<'_>,
    registers: &mut Registers,
    memory: &M,
) -> Result<(Survey, Result<(), FrameError>), FrameError>
    ensures { (g : Registers) → UndoesFirst (M.word memory.now) frame.base frame.limit
        (code_stream (unwind_view info.now)) (with_left (code_stream (unwind_view info.now)) first.entry.rest.now)
        g (changed first.entry.left registers.old) →
        SurveysUndone (M.word memory.now) frame.base frame.limit (unwind_view info.now)
        g (surveyed_changes result registers.new) }
{
    let mut survey = Survey {
        sets_frame_register: false,
        has_set_frame_register: false,
        is_interrupted: false,
    };
    let mut left = first.left;
    for item in UnwindCodeIterator::new(first.rest, info.version, info.frame_register) {
        match item {
            Ok(code) => {
                survey = survey.survey_with(code, frame.limit);
                left = undo_next(left, code, frame, registers, memory);
            }
            Err(error) => return Err(FrameError::Codes(error)),
        }
    }
    Ok((survey, left))
}

/// Makes the registers those before the codes with which a record starts, where all have run.
#[inline(always)]
fn undo_first<'a, M: Memory>(
    info: &UnwindInfo<'a>,
    frame: RecordFrame,
    registers: &mut Registers,
    memory: &M,
) -> FirstUndone<'a>
    ensures { UndoesFirst (M.word memory.now) frame.base frame.limit (code_stream (unwind_view info.now))
        (with_left (code_stream (unwind_view info.now)) result.rest.now)
        registers.old (changed result.left registers.new) }
{
    match frame.limit {
        None => undo_frequent(info.code_bytes(), frame.base, registers, memory),
        Some(_) => FirstUndone {
            rest: info.code_bytes(),
            left: Ok(()),
        },
    }
}

/// Makes the registers those before the codes of a record that have run, and surveys them: nearly all records have frequent codes
/// alone, of which nothing is to be known.
#[inline(always)]
fn undo_surveyed<M: Memory>(
    info: &UnwindInfo<'_>,
    frame: RecordFrame,
    registers: &mut Registers,
    memory: &M,
) -> Result<(Survey, Result<(), FrameError>), FrameError>
    ensures { SurveysUndone (M.word memory.now) frame.base frame.limit (unwind_view info.now)
        registers.old (surveyed_changes result registers.new) }
{
    let first = undo_first(info, frame, registers, memory);
    if !first.rest.is_empty() {
        return undo_rest(info, frame, first, registers, memory);
    }
    let survey = Survey {
        sets_frame_register: false,
        has_set_frame_register: false,
        is_interrupted: false,
    };
    Ok((survey, first.left))
}

/// Makes the registers those where the code of a record was entered, by one pass over its codes.
#[tactic(auto, using(crate::proofs::Records::enters_at_once))]
#[inline(always)]
fn enter_at_once<M: Memory>(
    info: &UnwindInfo<'_>,
    frame: RecordFrame,
    registers: &mut Registers,
    memory: &M,
) -> Result<bool, FrameError>
    requires { IsExpectedBase frame.limit (frame_register_in (unwind_view info.now))
        registers.old frame.base }
    ensures { Enters (M.word memory.now) frame.limit (unwind_view info.now) registers.old
        (changed_with result registers.new) }
{
    let (survey, left) = match undo_surveyed(info, frame, registers, memory) {
        Ok(surveyed) => surveyed,
        Err(error) => return Err(error),
    };
    if survey.has_set_frame_register && info.frame_register.0 == 0 {
        return Err(FrameError::Operation(UnwindOperation::SetFPRegister));
    }
    match left {
        Ok(()) => Ok(survey.is_interrupted),
        Err(error) => Err(error),
    }
}

/// Makes the registers those where the code of a record was entered. Returns whether an interrupt entered it.
#[inline(always)]
pub(crate) fn enter<M: Memory>(
    info: &UnwindInfo<'_>,
    limit: Option<u32>,
    registers: &mut Registers,
    memory: &M,
) -> Result<bool, FrameError>
    ensures { Enters (M.word memory.now) limit (unwind_view info.now) registers.old
        (changed_with result registers.new) }
{
    match expected_base(info, limit, registers) {
        Some(base) => enter_at_once(info, RecordFrame { limit, base }, registers, memory),
        None => enter_in_prolog(info, limit, registers, memory),
    }
}
