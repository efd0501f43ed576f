//! A walk of a stack on ARM64: the frames of a thread, from the top frame outwards, through the modules of its process.
//!
//! In each frame the function is looked up in the module of its instruction pointer, and what its prolog did is undone
//! ([Microsoft's page](https://learn.microsoft.com/cpp/build/arm64-exception-handling)). A return address may be the end of its
//! function, if the call before it is the last instruction, so there the call is looked up, four bytes before it. The unwind data
//! say where epilogs are, so no code is read. A leaf function, which has no unwind data, leaves its return address in the link
//! register; only the top frame, and one that was interrupted, can be in one.
//!
//! What is a return address is a fact of the four bytes before it: they are a call. Records lead to interrupted code too, and
//! some say so by a code for a frame of the operating system's own.

ghost use Rattle.std.specs.Prelude.{◌≡◌, ◌+◌, ◌-◌, ◌*◌, ◌<◌, ◌≤◌, Ok, IsTrue, Some};
ghost use Rattle.std.specs.Option.{option_map};
ghost use Rattle.std.specs.Iterator.{at_most};
ghost use Rattle.pe_core.specs.Refusals.{answer_by};
ghost use Rattle.pe_unwind.specs.Arm64Record.{info_view};
ghost use Rattle.pe_unwind.specs.Arm64Unwinding.{info_by};
ghost use Rattle.pe_lookup.specs.AddressRanges.{has_address};
ghost use Rattle.pe_frame.specs.Arm64Walks.{frame_of, code_return, scanned, scanned_by, leaf_frame, leaf_without_image, without_records, lookup_address, place_of, jumped_frame, record_return, chained, caller_in_code, caller_of_leaf, found_outside, found_by_ranges, caller_outside, caller_without_table, leaf_is_guess, is_bottom, called_frame, frame_after, stepped_out_packed, CallsByInfo, CallsFound, CallsIn};
ghost use Rattle.pe_frame.specs.Modules.{map_of_module, module_base, module_size};

use super::registers::{Arm64Registers, FRAME_POINTER, LINK_REGISTER};
use super::step::{caller, leaf_arm64, packed_caller};
use super::undo::stripped;
use crate::chain::frame_record;
use crate::error::FrameError;
use crate::memory::{Memory, SIZE_OF_WORD};
use crate::modules::{Module, ModuleMap, Modules};
use crate::position::{WalkFrame, WalkPosition};
use crate::process::{CallSites, LoadedModules};
use crate::scan::{ReturnWords, first_return_above};
use crate::walk::{WalkEnd, Way, end_at_0, may_end_call};
use pe_unwind::{Arm64RuntimeFunction, ExceptionData};

/// The bytes of an instruction.
const SIZE_OF_INSTRUCTION: u32 = 4;

/// A frame of a stack walk on ARM64.
#[derive(Clone, Copy)]
pub struct Arm64StackFrame {
    /// The registers in its function. Where it has called, `pc` is the return address.
    pub registers: Arm64Registers,
    /// How they were found.
    pub way: Way,
    /// Whether its function has called. If not, `pc` is that of the instruction that is about to run: in the top frame, in one
    /// that no call left, as the records of the frame before it say, and in one that records lead to where no call ends at `pc`,
    /// which was interrupted too.
    pub has_called: bool,
    /// Whether it may be wrong, as `is_guess` of `StackFrame`.
    pub is_guess: bool,
}

/// A frame with these registers, found in this way.
fn frame_of<L: CallSites>(
    modules: &L,
    way: Way,
    is_guess: bool,
    registers: Arm64Registers,
) -> Arm64StackFrame
    ensures { result ≡ frame_of (L.list modules.now) way is_guess registers }
{
    let has_called = match way {
        Way::Top => false,
        Way::Records => modules.ends_call_arm64(registers.pc),
        Way::Leaf => true,
        Way::Interrupt => false,
        Way::Scanned => true,
        Way::FramePointer => true,
    };
    Arm64StackFrame {
        registers,
        way,
        has_called,
        is_guess,
    }
}

impl Arm64StackFrame {
    /// The address by which the function of a frame is looked up: where it has called, that of the call.
    pub fn lookup_address(&self) -> u64
        ensures { result ≡ lookup_address self.now }
    {
        let size_of_call = if self.has_called {
            u64::from(SIZE_OF_INSTRUCTION)
        } else {
            0
        };
        self.registers.pc.saturating_sub(size_of_call)
    }
}

/// The return addresses into the executable code of these modules. On the stack they may have a signature.
#[derive(Drop)]
struct CodeReturns<'a, L> {
    modules: &'a L,
}

impl<'a, L: CallSites> ReturnWords for CodeReturns<'a, L> {
    ghost returns = { λ r. code_return (L.list r.modules.now) };

    fn return_of(&self, word: u64) -> Option<u64> {
        let address = stripped(word);
        if self.modules.ends_code_call_arm64(address) {
            Some(address)
        } else {
            None
        }
    }
}

/// The frame that a scan of the stack finds by a return address of these.
fn scanned_by<R: ReturnWords, L: CallSites, M: Memory>(
    returns: &R,
    modules: &L,
    memory: &M,
    registers: &Arm64Registers,
) -> Option<Arm64StackFrame>
    ensures { result ≡ scanned_by (R.returns returns.now)
        (M.word memory.now) (L.list modules.now) registers.now }
{
    let (address, word) = first_return_above(returns, memory, registers.sp)?;
    let mut caller = *registers;
    caller.sp = address + SIZE_OF_WORD;
    caller.pc = word;
    Some(frame_of(modules, Way::Scanned, true, caller))
}

/// The frame that a scan of the stack finds by any call.
fn scanned<L: CallSites, M: Memory>(
    modules: &L,
    memory: &M,
    registers: &Arm64Registers,
) -> Option<Arm64StackFrame>
    ensures { result ≡ scanned (M.word memory.now) (L.list modules.now) registers.now }
{
    scanned_by(&CodeReturns { modules }, modules, memory, registers)
}

/// The frame of the caller of a leaf function, if a call ends at the link register.
fn leaf_frame<L: CallSites>(
    modules: &L,
    is_guess: bool,
    registers: &Arm64Registers,
) -> Option<Arm64StackFrame>
    ensures { result ≡ leaf_frame (L.list modules.now) is_guess registers.now }
{
    let address = registers.general[LINK_REGISTER];
    if modules.ends_call_arm64(address) {
        let is_guess = is_guess || !modules.ends_code_call_arm64(address);
        Some(frame_of(modules, Way::Leaf, is_guess, leaf_arm64(*registers)))
    } else {
        None
    }
}

/// The same if no image is at hand that would say whether one does.
fn leaf_without_image<L: CallSites>(
    modules: &L,
    is_guess: bool,
    registers: &Arm64Registers,
) -> Option<Arm64StackFrame>
    ensures { result ≡ leaf_without_image (L.list modules.now) is_guess registers.now }
{
    let address = registers.general[LINK_REGISTER];
    if may_end_call(modules, address) {
        let is_guess = is_guess || !modules.ends_code_call_arm64(address);
        Some(frame_of(modules, Way::Leaf, is_guess, leaf_arm64(*registers)))
    } else {
        None
    }
}

/// The frame that is found from registers without records, by whether it is a guess that their function is a leaf function.
fn without_records<L: CallSites, M: Memory>(
    modules: &L,
    memory: &M,
    is_guess: bool,
    registers: &Arm64Registers,
) -> Option<Arm64StackFrame>
    ensures { result ≡ without_records (M.word memory.now) (L.list modules.now) is_guess registers.now }
{
    if let Some(frame) = leaf_frame(modules, is_guess, registers) {
        return Some(frame);
    }
    match leaf_without_image(modules, is_guess, registers) {
        Some(frame) => Some(frame),
        None => scanned(modules, memory, registers),
    }
}

/// The frame of the caller of a leaf function to which no call led, if it returns to code.
fn jumped_frame<L: CallSites>(
    modules: &L,
    registers: &Arm64Registers,
) -> Result<Arm64StackFrame, WalkEnd>
    ensures { result ≡ jumped_frame (L.list modules.now) registers.now }
{
    let address = registers.general[LINK_REGISTER];
    if address == 0 {
        return Err(WalkEnd::Zero);
    }
    if modules.is_code(address) {
        return Ok(frame_of(modules, Way::Leaf, true, leaf_arm64(*registers)));
    }
    Err(WalkEnd::NoReturnAddress)
}

/// The frame of the caller of a frame in no function, by whether it is a guess that this is one of a leaf function.
fn caller_of_leaf<L: CallSites, M: Memory>(
    modules: &L,
    is_guess: bool,
    frame: &Arm64StackFrame,
    memory: &M,
) -> Result<Arm64StackFrame, WalkEnd>
    ensures { result ≡ caller_of_leaf (M.word memory.now) (L.list modules.now) is_guess frame.now }
{
    if frame.has_called {
        return match scanned(modules, memory, &frame.registers) {
            Some(caller) => Ok(caller),
            None => Err(WalkEnd::NoFunction),
        };
    }
    match without_records(modules, memory, is_guess, &frame.registers) {
        Some(caller) => Ok(caller),
        None => jumped_frame(modules, &frame.registers),
    }
}

/// The return addresses that records of frames have: those into the executable code of these modules, and into images that are not at
/// hand. They may have a signature.
#[derive(Drop)]
struct RecordReturns<'a, L> {
    modules: &'a L,
}

impl<'a, L: CallSites> ReturnWords for RecordReturns<'a, L> {
    ghost returns = { λ r. record_return (L.list r.modules.now) };

    fn return_of(&self, word: u64) -> Option<u64> {
        let address = stripped(word);
        if self.modules.ends_code_call_arm64(address) || may_end_call(self.modules, address) {
            Some(address)
        } else {
            None
        }
    }
}

/// The frame to which the frame pointer of a frame without records leads, if it is not left as a leaf function is.
fn chained<L: CallSites, M: Memory>(
    modules: &L,
    frame: &Arm64StackFrame,
    memory: &M,
) -> Option<Arm64StackFrame>
    ensures { result ≡ chained (M.word memory.now) (L.list modules.now) frame.now }
{
    let mut registers = frame.registers;
    let link = registers.general[LINK_REGISTER];
    if !frame.has_called && (modules.ends_call_arm64(link) || may_end_call(modules, link)) {
        return None;
    }
    let (stack, pointer) = (registers.sp, registers.general[FRAME_POINTER]);
    let record = frame_record(&RecordReturns { modules }, memory, stack, pointer)?;
    registers.general[FRAME_POINTER] = record.frame_pointer;
    registers.sp = record.stack_pointer;
    registers.pc = record.address;
    Some(frame_of(modules, Way::FramePointer, true, registers))
}

/// The frame of the caller of a frame in code that no unwind data describe, by whether it is a guess that this is one of a leaf
/// function.
fn caller_in_code<L: CallSites, M: Memory>(
    modules: &L,
    is_guess: bool,
    frame: &Arm64StackFrame,
    memory: &M,
) -> Result<Arm64StackFrame, WalkEnd>
    ensures { result ≡ caller_in_code (M.word memory.now) (L.list modules.now) is_guess frame.now }
{
    match chained(modules, frame, memory) {
        Some(caller) => Ok(caller),
        None => caller_of_leaf(modules, is_guess, frame, memory),
    }
}

/// The frame that is found of one in no module.
fn found_outside<L: CallSites, M: Memory>(
    modules: &L,
    frame: &Arm64StackFrame,
    memory: &M,
) -> Option<Arm64StackFrame>
    ensures { result ≡ found_outside (M.word memory.now) (L.list modules.now) frame.now }
{
    if frame.has_called {
        scanned(modules, memory, &frame.registers)
    } else {
        without_records(modules, memory, true, &frame.registers)
    }
}

/// The frame that is found of one in a module whose image is not at hand, by the addresses that such modules have.
fn found_by_ranges<L: CallSites, M: Memory>(
    modules: &L,
    frame: &Arm64StackFrame,
    memory: &M,
) -> Option<Arm64StackFrame>
    ensures { result ≡ found_by_ranges (M.word memory.now) (L.list modules.now) frame.now }
{
    if modules.is_in_unknown(frame.lookup_address()) {
        scanned_by(
            &RecordReturns { modules },
            modules,
            memory,
            &frame.registers,
        )
    } else {
        None
    }
}

/// The frame of the caller of a frame in no module, or in one whose image is not at hand.
pub fn caller_outside_arm64<L: CallSites, M: Memory>(
    modules: &L,
    frame: &Arm64StackFrame,
    memory: &M,
) -> Result<Arm64StackFrame, WalkEnd>
    ensures { result ≡ caller_outside (M.word memory.now) (L.list modules.now) frame.now }
{
    let caller = match found_outside(modules, frame, memory) {
        Some(caller) => Some(caller),
        None => found_by_ranges(modules, frame, memory),
    };
    caller.ok_or(WalkEnd::NoModule)
}

/// The frame of the caller of a frame in a module without exception data.
fn caller_without_table<L: CallSites, M: Memory>(
    modules: &L,
    module: &Module<'_>,
    frame: &Arm64StackFrame,
    memory: &M,
) -> Result<Arm64StackFrame, WalkEnd>
    ensures { result ≡ caller_without_table (M.word memory.now) (L.list modules.now) module.now frame.now }
{
    if let Some(caller) = chained(modules, frame, memory) {
        return Ok(caller);
    }
    if module.is_unknown() {
        caller_outside_arm64(modules, frame, memory)
    } else {
        caller_of_leaf(modules, true, frame, memory)
    }
}

/// Whether it is a guess that a frame of which the module's table has no function is one of a leaf function.
fn leaf_is_guess(module: &Module<'_>, frame: &Arm64StackFrame) -> bool
    requires { lookup_address frame.now ≤ module.now.base + module.now.size }
    ensures { result ≡ leaf_is_guess module.now frame.now }
{
    frame.is_guess || !module.is_code(frame.lookup_address())
}

/// Whether the registers of a caller are those of the bottom of the stack.
fn is_bottom<L: CallSites, M: Memory>(modules: &L, memory: &M, registers: &Arm64Registers) -> bool
    ensures { result ≡ is_bottom (M.word memory.now) (L.list modules.now) registers.now }
{
    registers.pc == 0 && without_records(modules, memory, true, registers).is_none()
}

/// The frame that records lead to, without an interrupt.
fn called_frame<L: CallSites, M: Memory>(
    modules: &L,
    memory: &M,
    frame: &Arm64StackFrame,
    registers: Arm64Registers,
) -> Result<Arm64StackFrame, WalkEnd>
    ensures { result ≡ called_frame (M.word memory.now) (L.list modules.now) frame.now registers }
{
    if frame.has_called && registers.sp == frame.registers.sp {
        return Err(WalkEnd::Step(FrameError::NotRising(registers.sp)));
    }
    if is_bottom(modules, memory, &registers) {
        return Err(end_at_0(frame.is_guess));
    }
    Ok(frame_of(modules, Way::Records, frame.is_guess, registers))
}

/// What a step returned, as a frame.
fn frame_after<L: CallSites, M: Memory>(
    modules: &L,
    memory: &M,
    frame: &Arm64StackFrame,
    left: Result<(Arm64Registers, bool), FrameError>,
) -> Result<Arm64StackFrame, WalkEnd>
    ensures { result ≡ frame_after (M.word memory.now) (L.list modules.now) frame.now left }
{
    match left {
        Ok((registers, true)) => {
            Ok(frame_of(modules, Way::Interrupt, frame.is_guess, registers))
        }
        Ok((registers, false)) => called_frame(modules, memory, frame, registers),
        Err(error) => Err(WalkEnd::Step(error)),
    }
}

/// The registers of the caller by packed unwind data. No interrupt left them.
fn step_out_packed<M: Memory>(
    function: &Arm64RuntimeFunction,
    place: u32,
    registers: Arm64Registers,
    memory: &M,
) -> Result<(Arm64Registers, bool), FrameError>
    ensures { result ≡ stepped_out_packed
        (M.word memory.now) function.now.unwind_data place registers }
{
    match packed_caller(function, place, registers, memory) {
        Ok(left) => Ok((left, false)),
        Err(error) => Err(error),
    }
}

/// How many instructions of a function are before the instruction pointer of a frame.
fn place_of(module: &Module<'_>, function: &Arm64RuntimeFunction, frame: &Arm64StackFrame) -> u32
    requires { lookup_address frame.now ≤ module.now.base + module.now.size }
    ensures { result ≡ place_of module.now function.now frame.now }
{
    let offset = module
        .rva_of(frame.lookup_address())
        .saturating_sub(function.begin_address);
    offset / SIZE_OF_INSTRUCTION + if frame.has_called { 1 } else { 0 }
}

/// The function of a frame, as lookup found it.
#[derive(Clone, Copy)]
struct Arm64FrameFunction<'a> {
    module: &'a Module<'a>,
    exceptions: &'a ExceptionData<'a>,
    function: Arm64RuntimeFunction,
}

/// The frame of the caller, by the unwind data of the function that lookup found.
fn caller_by_records<L: CallSites, M: Memory>(
    modules: &L,
    found: &Arm64FrameFunction<'_>,
    frame: &Arm64StackFrame,
    memory: &M,
) -> Result<Arm64StackFrame, WalkEnd>
    requires { lookup_address frame.now ≤ found.now.module.now.base + found.now.module.now.size }
    ensures { CallsByInfo
        (record { memory = M.word memory.now; modules = L.list modules.now })
        found.now.module.now found.now.function frame.now
        (info_by (map_of_module found.now.module.now found.now.exceptions.now)
        found.now.exceptions.now.content found.now.function)
        result }
{
    let Arm64FrameFunction {
        module,
        exceptions,
        function,
    } = *found;
    let place = place_of(module, &function, frame);
    let registers = frame.registers;
    let map = ModuleMap { module, exceptions };
    match exceptions.get_unwind_info_arm64_with_map(function, &map) {
        None => {
            let left = step_out_packed(&function, place, registers, memory);
            frame_after(modules, memory, frame, left)
        }
        Some(Ok(info)) => {
            let left = caller(&info, place, registers, memory);
            frame_after(modules, memory, frame, left)
        }
        Some(Err(error)) => Err(WalkEnd::Records(error)),
    }
}

/// The frame of the caller, by the module that has the lookup address of the frame.
pub fn caller_in_module_arm64<L: CallSites, M: Memory>(
    modules: &L,
    module: &Module<'_>,
    frame: &Arm64StackFrame,
    memory: &M,
) -> Result<Arm64StackFrame, WalkEnd>
    requires { IsTrue (has_address module_base module_size (lookup_address frame.now) module.now) }
    ensures { CallsIn (record { memory = M.word memory.now; modules = L.list modules.now })
        frame.now (Some module.now) result }
{
    let Some(exceptions) = module.exceptions else {
        return caller_without_table(modules, module, frame, memory);
    };
    let rva = module.rva_of(frame.lookup_address());
    match exceptions.find_function_arm64_with_map(rva, &ModuleMap { module, exceptions }) {
        Ok(Some(function)) => {
            let found = Arm64FrameFunction {
                module,
                exceptions,
                function,
            };
            caller_by_records(modules, &found, frame, memory)
        }
        Ok(None) => caller_in_code(modules, leaf_is_guess(module, frame), frame, memory),
        Err(error) => Err(WalkEnd::Records(error)),
    }
}

impl WalkFrame for Arm64StackFrame {
    ghost use Rattle.pe_frame.specs.Arm64Walks.{Calls};

    ghost Calls = { Calls };

    fn become_caller<L: LoadedModules, M: Memory>(
        &mut self,
        modules: &L,
        memory: &M,
    ) -> Result<(), WalkEnd> {
        match modules.caller_of_arm64(self, memory) {
            Ok(caller) => {
                *self = caller;
                Ok(())
            }
            Err(end) => Err(end),
        }
    }
}

/// A stack walk on ARM64: the frames of a thread, from the top frame outwards. It allocates nothing.
///
/// The modules have exception data that [`ExceptionData::parse_arm64_with_opts`] parsed.
///
/// It is over at the bottom of the stack, where a frame returns to 0; at a frame in no module or in no function from which no return
/// address is found; at memory that is not known, at any other error of a step, and after as many frames as the caller asks for. `end`
/// says which. A function that calls has stored the link register, so in a frame that has called the stack pointer has to rise:
/// where it stays, the end is `NotRising`. It may stay in the top frame and in one that was interrupted, and past a frame of the
/// operating system's own it may be anywhere.
///
/// In the top frame, and in one that was interrupted, the return address of code that no unwind data describe is the link register,
/// if a call ends at it or it lies in a module whose image is not at hand, else the first of 128 words from the stack pointer on that
/// is, without its signature, after a call in an executable section. In a module, where none is, it is the link register, if that is
/// an address of an executable section. In a frame that has called it is the first such word after a call. In code of a module the
/// frame pointer comes before such a word: where x29 is a multiple of 8 and leads to two words, the frame pointer of the caller, which
/// is higher or 0, and at or above the stack pointer a return address, these are the caller's, and the stack pointer is that after
/// them, which may be too low. Where none is found, a walk that comes to 0 says `Zero`. In a module whose image is not at hand the last
/// resort is the first of the 128 words that is an address of such a module.
#[derive(Drop)]
pub struct Arm64StackFrames<'a, M> {
    modules: Modules<'a>,
    memory: &'a M,
    position: WalkPosition<Arm64StackFrame>,
}

impl<'a, M: Memory> Arm64StackFrames<'a, M> {
    ghost use Rattle.pe_frame.specs.Arm64Walks.{top_frame, walk_of};
    ghost use Rattle.pe_frame.specs.FrameWalks.{end_of, starting_walk};

    /// A walk of at most `most` frames, from the registers of a thread.
    pub fn new(
        modules: Modules<'a>,
        memory: &'a M,
        registers: Arm64Registers,
        most: usize,
    ) -> Arm64StackFrames<'a, M>
        ensures { walk_of (M.word) result ≡ starting_walk
            (record { memory = M.word memory.entry.now; modules = modules.entry.modules.now })
            (top_frame registers) most }
    {
        let top = Arm64StackFrame {
            registers,
            way: Way::Top,
            has_called: false,
            is_guess: false,
        };
        Arm64StackFrames {
            modules,
            memory,
            position: WalkPosition::starting(top, most),
        }
    }

    /// How many frames it returns at most from here on. 0 once it is over.
    pub fn remaining(&self) -> usize
        ensures { result ≡ self.now.position.remaining }
    {
        self.position.remaining
    }

    /// Why the walk is over. `None` while a frame may follow. After as many frames as were asked for it is `Bound`, whether or
    /// not the last of them has a caller.
    pub fn end(&self) -> Option<&WalkEnd>
        ensures { option_map (λ e. e.now) result ≡ end_of (walk_of (M.word) self.now) }
    {
        if self.position.remaining == 0 {
            Some(&self.position.end)
        } else {
            None
        }
    }
}

impl<'a, M: Memory> Iterator for Arm64StackFrames<'a, M> {
    ghost use Rattle.pe_frame.specs.Arm64Walks.{Calls, walk_of};
    ghost use Rattle.pe_frame.specs.FrameWalks.{Advances};

    type Item = Arm64StackFrame;

    ghost next_gives = { λ s r t. Advances Calls (walk_of (M.word) s) r (walk_of (M.word) t) };

    ghost remaining = { λ s. at_most s.position.remaining };

    fn next(&mut self) -> Option<Arm64StackFrame> {
        self.position.next(&self.modules, self.memory)
    }
}
