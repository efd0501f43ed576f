//! Laws of whole walks on ARM64.

ghost use Rattle.std.specs.Prelude.{Bool, ◌&&◌, not, ◌≡◌, ◌≢◌, ◌≤◌, ◌<◌, ◌++◌, ◌⊎◌, ℕ, true, false, List, length, Option, None, Some, Ok, Err};
ghost use Rattle.std.specs.Iterator.{YieldsThen};
ghost use Rattle.std.specs.List.{AllByRecursion};
ghost use Rattle.pe_unwind.specs.Arm64Record.{Arm64InfoView};
ghost use Rattle.pe_unwind.specs.declared.arm64.function.Arm64RuntimeFunction.{Arm64RuntimeFunction};
ghost use Rattle.pe_frame.specs.Arm64Packed.{stepped_arm64_packed};
ghost use Rattle.pe_frame.specs.Arm64Steps.{StepsOutArm64};
ghost use Rattle.pe_frame.specs.Arm64Walks.{AreModulesOfBytes, AreSortedModules, Calls, CallsByInfo, CallsFound, caller_in_code, caller_without_table, frame_of, has_called, is_leaf_return, record_of, returned_by, caller_of_leaf, caller_outside, lookup_address, place_of, top_frame, walk_of, without_records};
ghost use Rattle.pe_frame.specs.FrameWalks.{FrameWalk, IsWalk, Process, starting_walk};
ghost use Rattle.pe_frame.specs.Modules.{is_code_of, is_code_return_arm64};
ghost use Rattle.pe_frame.specs.Walks.{by_records, by_words, end_kind};
ghost use Rattle.pe_unwind.specs.ExceptionTable.{ExceptionView};
ghost use Rattle.pe_frame.specs.declared.arm64.registers.Arm64Registers.{Arm64Registers};
ghost use Rattle.pe_frame.specs.declared.arm64.walk.Arm64StackFrame.{Arm64StackFrame};
ghost use Rattle.pe_frame.specs.declared.arm64.walk.Arm64StackFrames.{Arm64StackFrames};
ghost use Rattle.pe_frame.specs.declared.chain.FrameRecord.{FrameRecord};
ghost use Rattle.pe_frame.specs.declared.modules.Module.{Module};
ghost use Rattle.pe_frame.specs.declared.walk.Way.TheVariants.{Records, Leaf, Interrupt, FramePointer};
ghost use Rattle.pe_frame.specs.declared.walk.WalkEnd.{WalkEnd};
ghost use Rattle.pe_frame.specs.declared.walk.WalkEnd.TheVariants.{Bottom};

use crate::arm64::Arm64StackFrames;
use crate::memory::Memory;

/// A whole walk returns the frames of a thread, at most as many as were asked for: the first as it is, and then the caller of
/// each, until there is none, for the reason that the iterator then has, or until as many were returned.
pub fn arm64_walks_return_the_frames<M: Memory + 'static>()
    ensures { (s u : Arm64StackFrames M) (frames : List Arm64StackFrame) →
        YieldsThen ⟦<Arm64StackFrames<'static, M> as Iterator>⟧.next_gives s frames None u →
        IsWalk Calls (walk_of M.word s) frames u.position.end
        × (length frames ≤ s.position.remaining) × (u.position.remaining ≡ 0) }
{}

/// There is a walk from each state over modules whose bytes are numbers below 256 (`exists`), whatever their function tables are: the
/// frames from the state on, and why it is over after them. Where the tables are sorted there is one alone, up to the numbers in a
/// refusal (`one`).
#[tactic(auto, using(crate::proofs::Arm64Walks::one_caller, crate::proofs::FrameWalks::one_walk, crate::proofs::FrameWalks::some_walk, crate::proofs::SomeArm64Walk::some_caller))]
pub fn one_result_of_arm64_walks()
    ensures exists { (w : FrameWalk Process Arm64StackFrame) →
        AreModulesOfBytes (w.process).modules →
        (frames : List Arm64StackFrame) × (end : WalkEnd) × IsWalk Calls w frames end }
    ensures one { (w : FrameWalk Process Arm64StackFrame)
        (frames others : List Arm64StackFrame) (end other : WalkEnd) →
        AreSortedModules (w.process).modules →
        IsWalk Calls w frames end → IsWalk Calls w others other →
        (frames ≡ others) × (end_kind end ≡ end_kind other) }
{}

/// A frame that is found by an unwind record is the step from the one before it (`records`), and so is one that is found by
/// packed unwind data (`packed`).
#[tactic(auto, using(crate::proofs::Arm64Found::frame_is_step, crate::proofs::Arm64Found::frame_is_packed_step))]
pub fn arm64_frames_are_steps()
    ensures records { (p : Process) (m : Module) (f : Arm64RuntimeFunction)
        (s t : Arm64StackFrame) (i : Arm64InfoView) →
        CallsByInfo p m f s (Some (Ok i)) (Ok t) →
        (interrupted : Bool)
        × StepsOutArm64 p.memory i (place_of m f s) s.registers (Ok (t.registers, interrupted)) }
    ensures packed { (p : Process) (m : Module) (f : Arm64RuntimeFunction) (s t : Arm64StackFrame) →
        CallsByInfo p m f s None (Ok t) →
        stepped_arm64_packed p.memory f.unwind_data (place_of m f s) s.registers ≡ Ok t.registers }
{}

/// Where the frame pointer leads to a record (`frame_pointers_lead_to_records`) from a frame in code without unwind data, the caller is
/// the one that the record says, as a guess (`followed`), also in a module without a function table or an image (`without_table`).
/// Where a leaf function would return to a caller, or there is no record, it is as without frame pointers (`leaf`, `none`).
#[tactic(auto, using(crate::proofs::Arm64Found::chain_followed, crate::proofs::Arm64Found::chain_without_table, crate::proofs::Arm64Found::no_chain, crate::proofs::Arm64Found::no_record))]
pub fn arm64_frame_pointers_lead_to_records()
    ensures followed { (memory : ℕ → Option ℕ) (modules : List Module) (guess : Bool) (s : Arm64StackFrame) (r : FrameRecord) →
        (not s.has_called && is_leaf_return modules s.registers) ≡ false →
        record_of memory modules s.registers ≡ Some r →
        caller_in_code memory modules guess s
        ≡ Ok (frame_of modules FramePointer true (returned_by s.registers r)) }
    ensures without_table { (memory : ℕ → Option ℕ) (modules : List Module) (m : Module) (s : Arm64StackFrame) (r : FrameRecord) →
        (not s.has_called && is_leaf_return modules s.registers) ≡ false →
        record_of memory modules s.registers ≡ Some r →
        caller_without_table memory modules m s
        ≡ Ok (frame_of modules FramePointer true (returned_by s.registers r)) }
    ensures leaf { (memory : ℕ → Option ℕ) (modules : List Module) (guess : Bool) (s : Arm64StackFrame) →
        (not s.has_called && is_leaf_return modules s.registers) ≡ true →
        caller_in_code memory modules guess s ≡ caller_of_leaf memory modules guess s }
    ensures none { (memory : ℕ → Option ℕ) (modules : List Module) (guess : Bool) (s : Arm64StackFrame) →
        record_of memory modules s.registers ≡ None →
        caller_in_code memory modules guess s ≡ caller_of_leaf memory modules guess s }
{}

/// Each frame says whether it has called, by its way and the bytes before its instruction pointer (`called`). From a frame that has
/// called only records lead on, or words of the stack: the caller of a leaf function is found from one that has not (`led`).
#[tactic(auto, using(crate::proofs::Arm64Found::says_whether, crate::proofs::Arm64Found::led_on))]
pub fn arm64_frames_say_whether_they_called()
    ensures called { (p : Process) (s t : Arm64StackFrame) →
        Calls p s (Ok t) → t.has_called ≡ has_called p.modules t.way (t.registers).pc }
    ensures led { (p : Process) (s t : Arm64StackFrame) →
        Calls p s (Ok t) → s.has_called ≡ true →
        (t.way ≡ Records) ⊎ ((t.way ≡ Interrupt) ⊎ (by_words t.way ≡ true)) }
{}

/// What words of the stack lead to, by a scan or a frame pointer, is a guess (`words`), and so is each frame after a guess
/// (`follows`). No other one is but the caller of a leaf function: what records lead to is a guess where the frame before it is (`records`), and so is the caller of code of which a table
/// says that it is a leaf function, where the call is in an executable section too (`leaf`). So the frames of a thread are no guesses
/// up to the first that records do not lead to (`sure`).
pub fn arm64_frames_say_whether_they_are_guesses()
    ensures words { (p : Process) (s t : Arm64StackFrame) →
        Calls p s (Ok t) → by_words t.way ≡ true → t.is_guess ≡ true }
    ensures follows { (p : Process) (s t : Arm64StackFrame) →
        Calls p s (Ok t) → s.is_guess ≡ true → t.is_guess ≡ true }
    ensures records { (p : Process) (s t : Arm64StackFrame) →
        Calls p s (Ok t) → by_records t.way ≡ true → t.is_guess ≡ s.is_guess }
    ensures leaf { (p : Process) (m : Module) (e : ExceptionView) (s t : Arm64StackFrame) →
        CallsFound p m e s (Ok None) (Ok t) → t.way ≡ Leaf →
        is_code_of (Some m) (lookup_address s) ≡ true →
        is_code_return_arm64 p.modules (t.registers).pc ≡ true → t.is_guess ≡ s.is_guess }
    ensures sure { (p : Process) (g : Arm64Registers) (most : ℕ) (first rest : List Arm64StackFrame) (end : WalkEnd) →
        IsWalk Calls (starting_walk p (top_frame g) most) (first ++ rest) end →
        AllByRecursion (λ s. by_records s.way ≡ true) first →
        AllByRecursion (λ s. s.is_guess ≡ false) first }
{}

/// From a frame that has called to one that is found by records the stack pointer rises, so that such frames do not go round.
#[tactic(auto, using(crate::proofs::Arm64Found::rises_after_calls))]
pub fn arm64_frames_that_called_rise()
    ensures { (p : Process) (s t : Arm64StackFrame) →
        Calls p s (Ok t) → s.has_called ≡ true →
        t.way ≡ Records → (s.registers).sp < (t.registers).sp }
{}

/// A walk of a thread ends at the bottom only if none of its frames is a guess (`whole`). There a caller's instruction pointer is 0,
/// to which records led (`records`) or packed unwind data (`packed`), from a frame that is no guess, and no frame is found from that
/// caller's registers. A frame that no unwind data describe is never the bottom: in no function of a module (`leaf`), or in no module
/// (`outside`).
#[tactic(auto, using(crate::proofs::Arm64Found::code_at_bottom, crate::proofs::Arm64Found::outside_at_bottom, crate::proofs::Arm64Found::packed_at_bottom, crate::proofs::Arm64Found::records_at_bottom, crate::proofs::Arm64Found::whole_is_sure))]
pub fn arm64_bottoms_are_returns_to_0()
    ensures records { (p : Process) (m : Module) (f : Arm64RuntimeFunction)
        (s : Arm64StackFrame) (i : Arm64InfoView) →
        CallsByInfo p m f s (Some (Ok i)) (Err Bottom) →
        (u : Arm64Registers)
        × StepsOutArm64 p.memory i (place_of m f s) s.registers (Ok (u, false)) × (u.pc ≡ 0)
        × (without_records p.memory p.modules true u ≡ None) × (s.is_guess ≡ false) }
    ensures packed { (p : Process) (m : Module) (f : Arm64RuntimeFunction) (s : Arm64StackFrame) →
        CallsByInfo p m f s None (Err Bottom) →
        (u : Arm64Registers)
        × (stepped_arm64_packed p.memory f.unwind_data (place_of m f s) s.registers ≡ Ok u)
        × (u.pc ≡ 0) × (without_records p.memory p.modules true u ≡ None) × (s.is_guess ≡ false) }
    ensures leaf { (memory : ℕ → Option ℕ) (modules : List Module) (guess : Bool) (s : Arm64StackFrame) →
        caller_in_code memory modules guess s ≢ Err Bottom }
    ensures outside { (memory : ℕ → Option ℕ) (modules : List Module) (s : Arm64StackFrame) →
        caller_outside memory modules s ≢ Err Bottom }
    ensures whole { (p : Process) (g : Arm64Registers) (most : ℕ) (frames : List Arm64StackFrame) →
        IsWalk Calls (starting_walk p (top_frame g) most) frames Bottom →
        AllByRecursion (λ s. s.is_guess ≡ false) frames }
{}
