//! A walk of a stack on x64: the frames of a thread, from the top frame outwards, through the modules of its process.
//!
//! In each frame the function is looked up in the module of its instruction pointer, and what its prolog did is undone
//! ([Microsoft's page](https://learn.microsoft.com/cpp/build/exception-handling-x64)). A return address may be the end of its
//! function, if the call before it is the last instruction, so there the byte before it is looked up. The top frame alone, and
//! one that was interrupted, can be in an epilog, which its code tells, or in a leaf function, which has no unwind data.
//!
//! What is a return address is a fact of the bytes before it: a call ends there. Records lead to interrupted code too, where a
//! dispatcher of exceptions saved the registers without a machine frame. After a call of a null pointer the frame is in no module:
//! its return address is at the stack pointer, if a call ends at that, or if its module has no image that would say so. Where neither
//! leads on, the stack is scanned: first for the call of the function itself, which starts between the entries of the function table
//! around it, then for any call. Before a scan for any call a chain of frame pointers leads on, in code of an image: `chain`. From a
//! module whose image is not at hand the last resort is any address of such a module.
//!
//! What is found so may be wrong, and so may all that follows. Each frame says whether it is such a guess, and a stack is called whole
//! only where none is.

ghost use Rattle.std.specs.Prelude.{◌≡◌, ◌≤◌, ◌<◌, ◌+◌, ◌-◌, ◌^◌, Ok, Err, IsTrue, OnErr, true, false};
ghost use Rattle.std.specs.Option.{is_none, option_map};
ghost use Rattle.std.specs.Iterator.{at_most};
ghost use Rattle.pe_lookup.specs.AddressRanges.{has_address};
ghost use Rattle.pe_frame.specs.InPlace.{changed_with};
ghost use Rattle.pe_frame.specs.FrameWalks.{frame_left};
ghost use Rattle.pe_frame.specs.Modules.{may_end_call, module_base, module_size};
ghost use Rattle.pe_frame.specs.Walks.{has_called, frame_of, lookup_address, code_of_frame, code_return, scanned, scanned_by, leaf_frame, without_records, is_bottom, end_at_0, after_leaf, caller_of_leaf, found_outside, found_by_ranges, caller_outside, caller_without_table, leaf_is_guess, frame_after, CallsFound, CallsIn, scanned_frame, IsGap, is_in_gap, gap_target, scanned_in_gap, called_in_gap, caller_in_gap, leaf_without_image, record_return, is_leaf_return, chained, caller_in_code, lower_frame};
ghost use Rattle.pe_frame.specs.declared.modules.Module.{Module};
ghost use Rattle.pe_unwind.specs.ExceptionTable.{table_of};
ghost use Rattle.pe_unwind.specs.FunctionTable.{Finds, functions};
ghost use Rattle.pe_unwind.specs.Lookup.{FindsStart};

use crate::chain::frame_record;
use crate::error::FrameError;
use crate::frame::leaf;
use crate::function_step::step_in_function_in_place;
use crate::jump::ImageFunctions;
use crate::memory::{Memory, SIZE_OF_WORD};
use crate::modules::{Module, ModuleMap, Modules};
use crate::plain::step_by_plain_record;
use crate::plan::Stopped;
use crate::position::{WalkFrame, WalkPosition};
use crate::process::{CallSites, LoadedModules};
use crate::registers::{RBP, RSP, Registers};
use crate::scan::{CallTargets, ReturnWords, first_return_above, highest_call_above};
use pe_unwind::{ExceptionData, RuntimeFunction, search_start};

/// The addresses below this one, 64 KB, are free in each process of Windows.
const LOWEST_ADDRESS: u64 = 0x1_0000;

/// How a frame was found.
#[derive(Clone, Copy, Debug, PartialEq)]
pub enum Way {
    /// It is the top frame.
    Top,
    /// By the unwind records of the function that it called.
    Records,
    /// It called a leaf function.
    Leaf,
    /// An interrupt stopped it: the records of the frame before it show what the processor pushed.
    Interrupt,
    /// By a scan of the stack, where no records led on. It is the word whose call leads to the code without records in which the
    /// frame before it is, to the nearest address before that, or if there is none, the first that is after a call in executable
    /// code; or, from a module whose image is not at hand, the first address of such a module. It may be a return address that was left there, so this frame and those after it may be wrong.
    Scanned,
    /// By a chain of frame pointers: the function that it called keeps one in rbp, on ARM64 in x29, which leads to what that saved of
    /// it, by what is there. No records say so. A function that keeps none leaves that of its caller, so this frame and those after it
    /// may be wrong.
    FramePointer,
}

/// A frame of a stack walk.
#[derive(Clone, Copy, PartialEq)]
pub struct StackFrame {
    /// The registers in its function. Where it has called, `rip` is the return address.
    pub registers: Registers,
    /// How they were found.
    pub way: Way,
    /// Whether its function has called. If not, `rip` is that of the instruction that is about to run: in the top frame, in one
    /// that an interrupt stopped, and in one that records lead to where no call ends at `rip`, which was interrupted too.
    pub has_called: bool,
    /// Whether it may be wrong: nothing proves that it is the caller, or it follows a frame of which this holds. What a scan or a
    /// frame pointer leads to is a guess, and so is the caller of code of which no function table says that it is a leaf function: in a module without
    /// exception data, in no module, in data, and where no call in executable code ends at the return address.
    pub is_guess: bool,
}

/// Why a walk is over.
#[derive(Debug, Drop, thiserror::Error)]
pub enum WalkEnd {
    /// As many frames were returned as the caller of the walk asked for.
    #[error("as many frames as were asked for")]
    Bound,
    /// By its records the last frame returns to 0, as that does with which a thread starts, no frame is found there, and none of the
    /// frames is a guess. The stack is whole, unless a frame that records lead to has not called: its return address may have been
    /// overwritten.
    #[error("bottom of the stack")]
    Bottom,
    /// The last frame returns to 0, but a frame is a guess, as after a call of a null pointer, or no records describe the code of the
    /// last one: frames may be missing or wrong.
    #[error("return to 0, by a guess or without records")]
    Zero,
    /// The instruction pointer of the last frame is in no module, or in one whose image is not at hand, and no return address is found.
    #[error("no module with an image has the instruction pointer")]
    NoModule,
    /// No function covers the call in the last frame, and no return address is found. A leaf function calls nothing.
    #[error("no function covers the call")]
    NoFunction,
    /// No records describe the code of the last frame, and where it would return to is no executable code of a module, nor in a module
    /// whose image is not at hand.
    #[error("no return address")]
    NoReturnAddress,
    /// An unwind record of the function in the last frame cannot be read.
    #[error("{0}")]
    Records(pe_core::Error),
    /// More than 32 records are chained, or a chain of them never ends.
    #[error("more than 32 unwind records are chained")]
    LongChain,
    /// The step from the last frame is refused.
    #[error("{0}")]
    Step(FrameError),
}

/// Whether the function of a frame has called, which was found in this way.
fn has_called<L: CallSites>(modules: &L, way: Way, rip: u64) -> bool
    ensures { result ≡ has_called (L.list modules.now) way rip }
{
    match way {
        Way::Top => false,
        Way::Records => modules.ends_call(rip),
        Way::Leaf => true,
        Way::Interrupt => false,
        Way::Scanned => true,
        Way::FramePointer => true,
    }
}

/// A frame with these registers, found in this way.
fn frame_of<L: CallSites>(modules: &L, way: Way, is_guess: bool, registers: Registers) -> StackFrame
    ensures { result ≡ frame_of (L.list modules.now) way is_guess registers }
{
    StackFrame {
        registers,
        way,
        has_called: has_called(modules, way, registers.rip),
        is_guess,
    }
}

/// Makes a frame one that was found in this way, with the registers that it has, after one that was a guess if it was.
fn found_in<L: CallSites>(modules: &L, way: Way, frame: &mut StackFrame)
    ensures { frame.new ≡ frame_of (L.list modules.now) way frame.old.is_guess frame.old.registers }
{
    frame.way = way;
    frame.has_called = has_called(modules, way, frame.registers.rip);
}

impl StackFrame {
    /// The address by which the function of a frame is looked up: where it has called, that of the byte before the return address.
    pub fn lookup_address(&self) -> u64
        ensures { result ≡ lookup_address self.now }
    {
        let size_of_call = if self.has_called { 1 } else { 0 };
        self.registers.rip.saturating_sub(size_of_call)
    }
}

/// The return addresses into the executable code of these modules.
#[derive(Drop)]
struct CodeReturns<'a, L> {
    modules: &'a L,
}

impl<'a, L: CallSites> ReturnWords for CodeReturns<'a, L> {
    ghost returns = { λ r. code_return (L.list r.modules.now) };

    fn return_of(&self, word: u64) -> Option<u64> {
        if self.modules.ends_code_call(word) {
            Some(word)
        } else {
            None
        }
    }
}

/// Code that no entry of a function table covers, up to an address.
#[derive(Clone, Copy)]
struct Gap {
    /// The address.
    last: u64,
    /// How many bytes before it no entry covers either.
    before: u64,
}

/// The calls into such code.
#[derive(Drop)]
struct GapCalls<'a, L> {
    modules: &'a L,
    gap: Gap,
}

/// Whether an address is in code that no entry covers.
fn is_in_gap(gap: Gap, address: u64) -> bool
    ensures { result ≡ is_in_gap gap address }
{
    address <= gap.last && gap.last - address <= gap.before
}

impl<'a, L: CallSites> CallTargets for GapCalls<'a, L> {
    ghost targets = { λ c. gap_target (L.list c.modules.now) c.gap };

    fn target_of(&self, word: u64) -> Option<u64> {
        match self.modules.target_of_call(word) {
            Some(target) if is_in_gap(self.gap, target) => Some(target),
            _ => None,
        }
    }
}

/// The frame that a scan of the stack finds by a return address, which stands at an address of the stack.
fn scanned_frame<L: CallSites>(
    modules: &L,
    registers: &Registers,
    address: u64,
    word: u64,
) -> StackFrame
    requires { address + 8 < 2 ^ 64 }
    ensures { result ≡ scanned_frame (L.list modules.now) registers.now (address, word) }
{
    let mut caller = *registers;
    caller.general[RSP] = address + SIZE_OF_WORD;
    caller.rip = word;
    frame_of(modules, Way::Scanned, true, caller)
}

/// The frame that a scan of the stack finds by a return address of these.
fn scanned_by<R: ReturnWords, L: CallSites, M: Memory>(
    returns: &R,
    modules: &L,
    memory: &M,
    registers: &Registers,
) -> Option<StackFrame>
    ensures { result ≡ scanned_by (R.returns returns.now)
        (M.word memory.now) (L.list modules.now) registers.now }
{
    let (address, word) = first_return_above(returns, memory, registers.general[RSP])?;
    Some(scanned_frame(modules, registers, address, word))
}

/// The frame that a scan of the stack finds by any call.
fn scanned<L: CallSites, M: Memory>(
    modules: &L,
    memory: &M,
    registers: &Registers,
) -> Option<StackFrame>
    ensures { result ≡ scanned (M.word memory.now) (L.list modules.now) registers.now }
{
    scanned_by(&CodeReturns { modules }, modules, memory, registers)
}

/// The frame that a scan of the stack finds by the call into code that no entry covers which leads highest there.
fn scanned_in_gap<L: CallSites, M: Memory>(
    modules: &L,
    gap: Gap,
    memory: &M,
    registers: &Registers,
) -> Option<StackFrame>
    ensures { result ≡ scanned_in_gap (M.word memory.now) (L.list modules.now) gap registers.now }
{
    let calls = GapCalls { modules, gap };
    let call = highest_call_above(&calls, memory, registers.general[RSP])?;
    Some(scanned_frame(modules, registers, call.address, call.word))
}

/// Whether no image is at hand that would say whether a call ends at an address.
pub(crate) fn may_end_call<L: CallSites>(modules: &L, address: u64) -> bool
    ensures { result ≡ may_end_call (L.list modules.now) address }
{
    LOWEST_ADDRESS <= address && modules.is_in_unknown(address - 1)
}

/// The frame of the caller of a leaf function, if a call ends where it returns to.
fn leaf_frame<L: CallSites>(
    modules: &L,
    is_guess: bool,
    popped: &Result<Registers, FrameError>,
) -> Option<StackFrame>
    ensures { result ≡ leaf_frame (L.list modules.now) is_guess popped.now }
{
    match popped {
        Ok(registers) if modules.ends_call(registers.rip) => {
            let is_guess = is_guess || !modules.ends_code_call(registers.rip);
            Some(frame_of(modules, Way::Leaf, is_guess, *registers))
        }
        _ => None,
    }
}

/// The same if no image is at hand that would say whether one does.
fn leaf_without_image<L: CallSites>(
    modules: &L,
    is_guess: bool,
    popped: &Result<Registers, FrameError>,
) -> Option<StackFrame>
    ensures { result ≡ leaf_without_image (L.list modules.now) is_guess popped.now }
{
    match popped {
        Ok(registers) if may_end_call(modules, registers.rip) => {
            let is_guess = is_guess || !modules.ends_code_call(registers.rip);
            Some(frame_of(modules, Way::Leaf, is_guess, *registers))
        }
        _ => None,
    }
}

/// The frame that is found from registers without records, by whether it is a guess that their function is a leaf function. Out of
/// line, as few frames are found so.
#[inline(never)]
fn without_records<L: CallSites, M: Memory>(
    modules: &L,
    memory: &M,
    is_guess: bool,
    registers: &Registers,
) -> Option<StackFrame>
    ensures { result ≡ without_records (M.word memory.now) (L.list modules.now) is_guess registers.now }
{
    let popped = leaf(*registers, memory);
    if let Some(frame) = leaf_frame(modules, is_guess, &popped) {
        return Some(frame);
    }
    match leaf_without_image(modules, is_guess, &popped) {
        Some(frame) => Some(frame),
        None => scanned(modules, memory, registers),
    }
}

/// Whether no frame is found from registers without records. Out of line, as few registers are at the bottom of a stack: the
/// others do not pay for the room of a frame.
#[inline(never)]
fn is_last<L: CallSites, M: Memory>(modules: &L, memory: &M, registers: &Registers) -> bool
    ensures { result ≡ is_none (without_records (M.word memory.now) (L.list modules.now) true registers.now) }
{
    without_records(modules, memory, true, registers).is_none()
}

/// Whether the registers of a caller are those of the bottom of the stack.
fn is_bottom<L: CallSites, M: Memory>(modules: &L, memory: &M, registers: &Registers) -> bool
    ensures { result ≡ is_bottom (M.word memory.now) (L.list modules.now) registers.now }
{
    registers.rip == 0 && is_last(modules, memory, registers)
}

/// Why a walk is over that comes to 0, from a frame that is a guess or is none.
pub(crate) fn end_at_0(is_guess: bool) -> WalkEnd
    ensures { result ≡ end_at_0 is_guess }
{
    if is_guess {
        WalkEnd::Zero
    } else {
        WalkEnd::Bottom
    }
}

/// The return addresses that records of frames have: those into the executable code of these modules, and into images that are not at
/// hand.
#[derive(Drop)]
struct RecordReturns<'a, L> {
    modules: &'a L,
}

impl<'a, L: CallSites> ReturnWords for RecordReturns<'a, L> {
    ghost returns = { λ r. record_return (L.list r.modules.now) };

    fn return_of(&self, word: u64) -> Option<u64> {
        if self.modules.ends_code_call(word) || may_end_call(self.modules, word) {
            Some(word)
        } else {
            None
        }
    }
}

/// Whether what a leaf function returns to is taken for its caller.
fn is_leaf_return<L: CallSites>(modules: &L, popped: &Result<Registers, FrameError>) -> bool
    ensures { result ≡ is_leaf_return (L.list modules.now) popped.now }
{
    match popped {
        Ok(registers) => {
            modules.ends_call(registers.rip) || may_end_call(modules, registers.rip)
        }
        Err(_) => false,
    }
}

/// The frame to which the frame pointer of a frame without records leads, if it is not left as a leaf function is.
fn chained<L: CallSites, M: Memory>(
    modules: &L,
    frame: &StackFrame,
    memory: &M,
) -> Option<StackFrame>
    ensures { result ≡ chained (M.word memory.now) (L.list modules.now) frame.now }
{
    let mut registers = frame.registers;
    if !frame.has_called && is_leaf_return(modules, &leaf(registers, memory)) {
        return None;
    }
    let (stack, pointer) = (registers.general[RSP], registers.general[RBP]);
    let record = frame_record(&RecordReturns { modules }, memory, stack, pointer)?;
    registers.general[RSP] = record.stack_pointer;
    registers.general[RBP] = record.frame_pointer;
    registers.rip = record.address;
    Some(frame_of(modules, Way::FramePointer, true, registers))
}

/// Of two frames the one that is lower on the stack, of two at one address the second.
fn lower_frame(first: Option<StackFrame>, second: Option<StackFrame>) -> Option<StackFrame>
    ensures { result ≡ lower_frame first second }
{
    match (first, second) {
        (None, frame) => frame,
        (frame, None) => frame,
        (Some(first), Some(second)) => {
            if first.registers.general[RSP] < second.registers.general[RSP] {
                Some(first)
            } else {
                Some(second)
            }
        }
    }
}

/// The frame of the caller of a leaf function to which no call led, if it returns to code.
fn after_leaf<L: CallSites>(
    modules: &L,
    popped: Result<Registers, FrameError>,
) -> Result<StackFrame, WalkEnd>
    ensures { result ≡ after_leaf (L.list modules.now) popped }
{
    match popped {
        Ok(registers) if registers.rip == 0 => Err(WalkEnd::Zero),
        Ok(registers) if modules.is_code(registers.rip) => {
            Ok(frame_of(modules, Way::Leaf, true, registers))
        }
        Ok(_) => Err(WalkEnd::NoReturnAddress),
        Err(error) => Err(WalkEnd::Step(error)),
    }
}

/// The frame of the caller of a frame in no function, by whether it is a guess that this is one of a leaf function.
fn caller_of_leaf<L: CallSites, M: Memory>(
    modules: &L,
    is_guess: bool,
    frame: &StackFrame,
    memory: &M,
) -> Result<StackFrame, WalkEnd>
    ensures { result ≡ caller_of_leaf (M.word memory.now) (L.list modules.now) is_guess frame.now }
{
    if frame.has_called {
        return match scanned(modules, memory, &frame.registers) {
            Some(caller) => Ok(caller),
            None => Err(WalkEnd::NoFunction),
        };
    }
    match without_records(modules, memory, is_guess, &frame.registers) {
        Some(caller) => Ok(caller),
        None => after_leaf(modules, leaf(frame.registers, memory)),
    }
}

/// The code in which a frame is that no entry covers.
#[tactic(auto, unfolding(pe_unwind::specs::FunctionTable::functions))]
fn gap_of(module: &Module<'_>, exceptions: &ExceptionData<'_>, frame: &StackFrame) -> Gap
    requires { lookup_address frame.now ≤ module.now.base + module.now.size }
    ensures { IsGap module.now exceptions.now frame.now result }
{
    let last = frame.lookup_address();
    let rva = module.rva_of(last);
    let end = match search_start(&mut exceptions.table(), rva) {
        Some(function) => function.end_address,
        None => 0,
    };
    let before = u64::from(rva.saturating_sub(end));
    Gap { last, before }
}

/// The frame of the caller of a frame in code that no entry covers, by a leaf function at whose return address a call ends, by a
/// scan for a call into that code, or by the frame pointer.
fn called_in_gap<L: CallSites, M: Memory>(
    modules: &L,
    is_guess: bool,
    gap: Gap,
    frame: &StackFrame,
    memory: &M,
) -> Option<StackFrame>
    ensures { result ≡ called_in_gap (M.word memory.now) (L.list modules.now) is_guess gap frame.now }
{
    if !frame.has_called {
        let popped = leaf(frame.registers, memory);
        if let Some(caller) = leaf_frame(modules, is_guess, &popped) {
            return Some(caller);
        }
    }
    let by_call = scanned_in_gap(modules, gap, memory, &frame.registers);
    lower_frame(by_call, chained(modules, frame, memory))
}

/// The frame of the caller of a frame in code that no entry covers.
fn caller_in_gap<L: CallSites, M: Memory>(
    modules: &L,
    is_guess: bool,
    gap: Gap,
    frame: &StackFrame,
    memory: &M,
) -> Result<StackFrame, WalkEnd>
    ensures { result ≡ caller_in_gap (M.word memory.now) (L.list modules.now) is_guess gap frame.now }
{
    match called_in_gap(modules, is_guess, gap, frame, memory) {
        Some(caller) => Ok(caller),
        None => caller_of_leaf(modules, is_guess, frame, memory),
    }
}

/// Puts the frame of a caller in place of another, if there is one.
fn put(caller: Result<StackFrame, WalkEnd>, frame: &mut StackFrame) -> Result<(), WalkEnd>
    ensures caller { frame_left result frame.new ≡ caller }
    ensures kept { OnErr result (frame.new ≡ frame.old) }
{
    match caller {
        Ok(caller) => {
            *frame = caller;
            Ok(())
        }
        Err(end) => Err(end),
    }
}

/// Makes a frame in an image without exception data that of its caller, or says why there is none. Out of line, as nearly all frames
/// are in a function: those do not pay for the room of another frame.
#[inline(never)]
fn become_caller_by_words<L: CallSites, M: Memory>(
    modules: &L,
    frame: &mut StackFrame,
    memory: &M,
) -> Result<(), WalkEnd>
    ensures caller { frame_left result frame.new
        ≡ caller_in_code (M.word memory.now) (L.list modules.now) true frame.old }
    ensures kept { OnErr result (frame.new ≡ frame.old) }
{
    let caller = match chained(modules, frame, memory) {
        Some(caller) => Ok(caller),
        None => caller_of_leaf(modules, true, frame, memory),
    };
    put(caller, frame)
}

/// The same of a frame in code that no entry of the function table covers.
#[inline(never)]
fn become_caller_in_gap<L: CallSites, M: Memory>(
    modules: &L,
    found: &ModuleMap<'_>,
    frame: &mut StackFrame,
    memory: &M,
) -> Result<(), WalkEnd>
    requires { lookup_address frame.old ≤ found.now.module.now.base + found.now.module.now.size }
    ensures caller { CallsFound (M.word memory.now) (L.list modules.now)
        found.now.module.now found.now.exceptions.now
        frame.old None (frame_left result frame.new) }
    ensures kept { OnErr result (frame.new ≡ frame.old) }
{
    let is_guess = leaf_is_guess(found.module, frame);
    let gap = gap_of(found.module, found.exceptions, frame);
    put(caller_in_gap(modules, is_guess, gap, frame, memory), frame)
}

/// The frame that is found of one in no module.
fn found_outside<L: CallSites, M: Memory>(
    modules: &L,
    frame: &StackFrame,
    memory: &M,
) -> Option<StackFrame>
    ensures { result ≡ found_outside (M.word memory.now) (L.list modules.now) frame.now }
{
    if frame.has_called {
        scanned(modules, memory, &frame.registers)
    } else {
        without_records(modules, memory, true, &frame.registers)
    }
}

/// The frame that is found of one in a module whose image is not at hand, by the addresses that such modules have.
fn found_by_ranges<L: CallSites, M: Memory>(
    modules: &L,
    frame: &StackFrame,
    memory: &M,
) -> Option<StackFrame>
    ensures { result ≡ found_by_ranges (M.word memory.now) (L.list modules.now) frame.now }
{
    if !modules.is_in_unknown(frame.lookup_address()) {
        return None;
    }
    match chained(modules, frame, memory) {
        Some(caller) => Some(caller),
        None => scanned_by(
            &RecordReturns { modules },
            modules,
            memory,
            &frame.registers,
        ),
    }
}

/// Makes a frame in no module, or in one whose image is not at hand, that of its caller, or says why there is none: then the frame
/// stays. Out of line, as `become_caller_by_words`.
#[inline(never)]
pub fn caller_outside<L: CallSites, M: Memory>(
    modules: &L,
    frame: &mut StackFrame,
    memory: &M,
) -> Result<(), WalkEnd>
    ensures caller { frame_left result frame.new
        ≡ caller_outside (M.word memory.now) (L.list modules.now) frame.old }
    ensures kept { OnErr result (frame.new ≡ frame.old) }
{
    let caller = match found_outside(modules, frame, memory) {
        Some(caller) => Some(caller),
        None => found_by_ranges(modules, frame, memory),
    };
    put(caller.ok_or(WalkEnd::NoModule), frame)
}

/// Makes a frame in a module without exception data that of its caller, or says why there is none: then the frame stays.
fn become_caller_without_table<L: CallSites, M: Memory>(
    modules: &L,
    module: &Module<'_>,
    frame: &mut StackFrame,
    memory: &M,
) -> Result<(), WalkEnd>
    ensures caller { frame_left result frame.new
        ≡ caller_without_table (M.word memory.now) (L.list modules.now) module.now frame.old }
    ensures kept { OnErr result (frame.new ≡ frame.old) }
{
    if module.is_unknown() {
        caller_outside(modules, frame, memory)
    } else {
        become_caller_by_words(modules, frame, memory)
    }
}

/// Whether it is a guess that a frame of which the module's table has no function is one of a leaf function.
fn leaf_is_guess(module: &Module<'_>, frame: &StackFrame) -> bool
    requires { lookup_address frame.now ≤ module.now.base + module.now.size }
    ensures { result ≡ leaf_is_guess module.now frame.now }
{
    frame.is_guess || !module.is_code(frame.lookup_address())
}

/// The bytes of an entry of a function table.
const SIZE_OF_FUNCTION: usize = 12;

/// The last function that starts at or before an RVA, as `search_start` of pe_unwind finds it. Of those on the way to it only the
/// starts are read.
fn function_from(exceptions: &ExceptionData<'_>, rva: u32) -> Option<RuntimeFunction>
    ensures { FindsStart (λ f. f.begin_address) (functions (table_of exceptions.now)) rva result }
{
    let mut table = exceptions.table();
    let mut low = 0;
    let mut high = table.len() / SIZE_OF_FUNCTION;
    while low < high {
        let middle = low + (high - low) / 2;
        if table.u32_at(SIZE_OF_FUNCTION * middle).unwrap() <= rva {
            low = middle + 1;
        } else {
            high = middle;
        }
    }
    if low == 0 {
        return None;
    }
    table.entry_at(SIZE_OF_FUNCTION * (low - 1))
}

/// The function that has an RVA, as `search` of pe_unwind finds it.
fn function_at(exceptions: &ExceptionData<'_>, rva: u32) -> Option<RuntimeFunction>
    ensures { Finds (functions (table_of exceptions.now)) rva result }
{
    match function_from(exceptions, rva) {
        Some(function) if rva < function.end_address => Some(function),
        _ => None,
    }
}

/// The function of a frame, as lookup found it.
#[derive(Clone, Copy)]
struct FrameFunction<'a> {
    module: &'a Module<'a>,
    exceptions: &'a ExceptionData<'a>,
    function: RuntimeFunction,
}

/// The code by which an epilog is known, from the RVA of a frame on: after a call there is none.
fn code_of_frame<'a>(found: &FrameFunction<'a>, frame: &StackFrame, rva: u32) -> &'a [u8]
    requires { rva ≡ frame.now.registers.rip - found.now.module.now.base }
    ensures { result.now ≡ code_of_frame found.now.module.now
        found.now.exceptions.now found.now.function.end_address frame.now }
{
    if frame.has_called {
        return &[];
    }
    found
        .module
        .code(found.exceptions, rva..found.function.end_address)
}

/// Makes a frame what a step left of it, whose registers are those of the caller.
fn frame_after<L: CallSites, M: Memory>(
    modules: &L,
    memory: &M,
    left: Result<bool, FrameError>,
    frame: &mut StackFrame,
) -> Result<(), WalkEnd>
    ensures { frame_left result frame.new ≡ frame_after (M.word memory.now) (L.list modules.now)
        frame.old.is_guess (changed_with left frame.old.registers) }
{
    match left {
        Ok(true) => {
            found_in(modules, Way::Interrupt, frame);
            Ok(())
        }
        Ok(false) => {
            if is_bottom(modules, memory, &frame.registers) {
                return Err(end_at_0(frame.is_guess));
            }
            found_in(modules, Way::Records, frame);
            Ok(())
        }
        Err(error) => Err(WalkEnd::Step(error)),
    }
}

/// Makes a frame that of its caller, by the records of the function that lookup found, or says why there is none: then the frame
/// means nothing. `rva` is that of the frame.
fn caller_by_records<L: CallSites, M: Memory>(
    modules: &L,
    found: &FrameFunction<'_>,
    frame: &mut StackFrame,
    rva: u32,
    memory: &M,
) -> Result<(), WalkEnd>
    requires { rva ≡ frame.old.registers.rip - found.now.module.now.base }
    ensures { CallsFound (M.word memory.now) (L.list modules.now)
        found.now.module.now found.now.exceptions.now
        frame.old (Some found.now.function) (frame_left result frame.new) }
{
    let FrameFunction {
        module,
        exceptions,
        function,
    } = *found;
    let code = code_of_frame(found, frame, rva);
    let map = ModuleMap { module, exceptions };
    let functions = ImageFunctions {
        exceptions,
        map: &map,
    };
    let (stopped, caller) = (Stopped { rva, code }, &mut frame.registers);
    let left = match step_in_function_in_place(&functions, function, stopped, caller, memory) {
        Ok(Some(left)) => left,
        Ok(None) => return Err(WalkEnd::LongChain),
        Err(error) => return Err(WalkEnd::Records(error)),
    };
    frame_after(modules, memory, left, frame)
}

/// The same with the frame as it was where it has no caller: by then a step may have changed some of its registers. Out of line, as
/// few frames that have called are in a function without a plain record: the others do not pay for the room of another frame.
#[inline(never)]
fn become_caller_by_any_records<L: CallSites, M: Memory>(
    modules: &L,
    found: &FrameFunction<'_>,
    frame: &mut StackFrame,
    rva: u32,
    memory: &M,
) -> Result<(), WalkEnd>
    requires { rva ≡ frame.old.registers.rip - found.now.module.now.base }
    ensures caller { CallsFound (M.word memory.now) (L.list modules.now)
        found.now.module.now found.now.exceptions.now
        frame.old (Some found.now.function) (frame_left result frame.new) }
    ensures kept { OnErr result (frame.new ≡ frame.old) }
{
    let before = *frame;
    match caller_by_records(modules, found, frame, rva, memory) {
        Ok(()) => Ok(()),
        Err(end) => {
            *frame = before;
            Err(end)
        }
    }
}

/// Makes a frame that has called that of its caller, by the plain record of its function. False where the function has no such record,
/// where the step is refused, and where it leads to 0: then the frame stays.
#[inline(always)]
fn becomes_caller_by_plain_record<L: CallSites, M: Memory>(
    modules: &L,
    found: &FrameFunction<'_>,
    frame: &mut StackFrame,
    rva: u32,
    memory: &M,
) -> bool
    requires { rva ≡ frame.old.registers.rip - found.now.module.now.base }
    ensures caller { IsTrue result → CallsFound (M.word memory.now) (L.list modules.now)
        found.now.module.now found.now.exceptions.now
        frame.old (Some found.now.function) (Ok frame.new) }
    ensures kept { result ≡ false → frame.new ≡ frame.old }
{
    if !frame.has_called {
        return false;
    }
    let FrameFunction {
        module,
        exceptions,
        function,
    } = *found;
    let map = ModuleMap { module, exceptions };
    let functions = ImageFunctions {
        exceptions,
        map: &map,
    };
    let before = frame.registers.general;
    let general = &mut frame.registers.general;
    match step_by_plain_record(&functions, function, rva, general, memory) {
        Some(rip) if rip != 0 => {
            frame.registers.rip = rip;
            found_in(modules, Way::Records, frame);
            true
        }
        _ => {
            frame.registers.general = before;
            false
        }
    }
}

/// Makes a frame that of its caller, by the records of the function that lookup found, or says why there is none: then the frame stays.
/// Nearly all frames have called, in functions with plain records, which are tried first.
fn become_caller_by_records<L: CallSites, M: Memory>(
    modules: &L,
    found: &FrameFunction<'_>,
    frame: &mut StackFrame,
    rva: u32,
    memory: &M,
) -> Result<(), WalkEnd>
    requires { rva ≡ frame.old.registers.rip - found.now.module.now.base }
    ensures caller { CallsFound (M.word memory.now) (L.list modules.now)
        found.now.module.now found.now.exceptions.now
        frame.old (Some found.now.function) (frame_left result frame.new) }
    ensures kept { OnErr result (frame.new ≡ frame.old) }
{
    if becomes_caller_by_plain_record(modules, found, frame, rva, memory) {
        return Ok(());
    }
    become_caller_by_any_records(modules, found, frame, rva, memory)
}

/// Makes a frame that of its caller, by the module that has its lookup address, or says why there is none: then the frame
/// stays.
pub fn caller_in_module<L: CallSites, M: Memory>(
    modules: &L,
    module: &Module<'_>,
    frame: &mut StackFrame,
    memory: &M,
) -> Result<(), WalkEnd>
    requires { IsTrue (has_address module_base module_size (lookup_address frame.old) module.now) }
    ensures caller { CallsIn (M.word memory.now) (L.list modules.now)
        frame.old (Some module.now) (frame_left result frame.new) }
    ensures kept { OnErr result (frame.new ≡ frame.old) }
{
    let Some(exceptions) = module.exceptions else {
        return become_caller_without_table(modules, module, frame, memory);
    };
    match function_at(exceptions, module.rva_of(frame.lookup_address())) {
        Some(function) => {
            let found = FrameFunction {
                module,
                exceptions,
                function,
            };
            let rva = module.rva_of(frame.registers.rip);
            become_caller_by_records(modules, &found, frame, rva, memory)
        }
        None => become_caller_in_gap(modules, &ModuleMap { module, exceptions }, frame, memory),
    }
}

impl WalkFrame for StackFrame {
    ghost use Rattle.pe_frame.specs.Walks.{Calls};

    ghost Calls = { Calls };

    fn become_caller<L: LoadedModules, M: Memory>(
        &mut self,
        modules: &L,
        memory: &M,
    ) -> Result<(), WalkEnd> {
        modules.become_caller(self, memory)
    }
}

/// A stack walk: the frames of a thread, from the top frame outwards. It allocates nothing.
///
/// It is over at the bottom of the stack, where a frame returns to 0; at a frame in no module or in no function from which no return
/// address is found; at memory that is not known, where the stack pointer does not rise, and at any other error of a step; and after
/// as many frames as the caller asks for. `end` says which. Only past an interrupt does the stack pointer not have to rise.
///
/// In the top frame, and in one that was interrupted, the return address of code that no records describe is the word at the stack
/// pointer, if a call ends at it or it lies in a module whose image is not at hand, else the first of 128 words from there on that is
/// after a call in an executable section. In a module, where none is, it is the word at the stack pointer, if that is an address of
/// an executable section. In a frame that has called it is the first such word after a call.
///
/// In code of an image the frame pointer comes before such a word: where rbp is a multiple of 8 and leads to two words, the frame
/// pointer of the caller, which is higher or 0, and at or above the stack pointer a return address, these are the caller's. Between
/// two entries of a function table the word whose call, E8, leads there, up to the frame, comes before all others after a call but
/// that at the stack pointer and one to which the frame pointer leads lower on the stack: of several the one whose call leads
/// highest, to the nearest start of a function. Where none is found, a walk that comes to 0 says `Zero`.
///
/// In a module whose image is not at hand, where no return address into code is found, the addresses of such modules are return addresses
/// too: one to which the frame pointer leads, else the first of the 128 words.
#[derive(Drop)]
pub struct StackFrames<'a, M> {
    modules: Modules<'a>,
    memory: &'a M,
    position: WalkPosition<StackFrame>,
}

impl<'a, M: Memory> StackFrames<'a, M> {
    ghost use Rattle.pe_frame.specs.FrameWalks.{end_of, starting_walk};
    ghost use Rattle.pe_frame.specs.Walks.{top_frame, walk_of};

    /// A walk of at most `most` frames, from the registers of a thread.
    pub fn new(
        modules: Modules<'a>,
        memory: &'a M,
        registers: Registers,
        most: usize,
    ) -> StackFrames<'a, M>
        ensures { walk_of (M.word) result ≡ starting_walk
            (record { memory = M.word memory.entry.now; modules = modules.entry.modules.now })
            (top_frame registers) most }
    {
        let top = StackFrame {
            registers,
            way: Way::Top,
            has_called: false,
            is_guess: false,
        };
        StackFrames {
            modules,
            memory,
            position: WalkPosition::starting(top, most),
        }
    }

    /// How many frames it returns at most from here on. 0 once it is over.
    pub fn remaining(&self) -> usize
        ensures { result ≡ self.now.position.remaining }
    {
        self.position.remaining
    }

    /// Why the walk is over. `None` while a frame may follow. After as many frames as were asked for it is `Bound`, whether or
    /// not the last of them has a caller.
    pub fn end(&self) -> Option<&WalkEnd>
        ensures { option_map (λ e. e.now) result ≡ end_of (walk_of (M.word) self.now) }
    {
        if self.position.remaining == 0 {
            Some(&self.position.end)
        } else {
            None
        }
    }
}

impl<'a, M: Memory> Iterator for StackFrames<'a, M> {
    ghost use Rattle.pe_frame.specs.FrameWalks.{Advances};
    ghost use Rattle.pe_frame.specs.Walks.{Calls, walk_of};

    type Item = StackFrame;

    ghost next_gives = { λ s r t. Advances Calls (walk_of (M.word) s) r (walk_of (M.word) t) };

    ghost remaining = { λ s. at_most s.position.remaining };

    fn next(&mut self) -> Option<StackFrame> {
        self.position.next(&self.modules, self.memory)
    }
}
