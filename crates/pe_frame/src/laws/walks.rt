//! Laws of whole walks.

ghost use Rattle.std.specs.Prelude.{Bool, ◌&&◌, not, ◌≡◌, ◌≢◌, ◌≤◌, ◌<◌, ◌+◌, ◌-◌, ◌*◌, ◌++◌, ◌⊎◌, ℕ, true, false, List, [], length, Option, Some, None, Ok, Err};
ghost use Rattle.std.specs.Iterator.{YieldsThen};
ghost use Rattle.std.specs.List.{AllByRecursion};
ghost use Rattle.pe_unwind.specs.ExceptionTable.{ExceptionView};
ghost use Rattle.pe_unwind.specs.UnwindRecord.{UnwindInfoView};
ghost use Rattle.pe_unwind.specs.declared.function_table.RuntimeFunction.{RuntimeFunction};
ghost use Rattle.pe_frame.specs.Epilogs.{epilog_at};
ghost use Rattle.pe_frame.specs.Scans.{IsFirstReturn, IsHighestCall, call_at, first_return, highest_call, most_words, return_at};
ghost use Rattle.pe_frame.specs.Steps.{Steps};
ghost use Rattle.pe_frame.specs.FrameRecords.{IsFrameRecord, caller_of_record, frame_record};
ghost use Rattle.pe_frame.specs.FrameWalks.{FrameWalk, IsWalk, Process, starting_walk};
ghost use Rattle.pe_frame.specs.Undoing.{popped};
ghost use Rattle.pe_frame.specs.Modules.{is_after_call, is_code_of, is_code_return, may_end_call};
ghost use Rattle.pe_frame.specs.Walks.{AreSortedModules, Calls, CallsByPlan, CallsFound, by_records, by_words, caller_in_code, end_kind, frame_of, has_called, is_leaf_return, lookup_address, caller_of_leaf, caller_outside, record_of, returned_by, top_frame, walk_of, without_records, StepsFromFrame, caller_in_gap};
ghost use Rattle.pe_frame.specs.declared.chain.FrameRecord.{FrameRecord};
ghost use Rattle.pe_frame.specs.declared.modules.Module.{Module};
ghost use Rattle.pe_frame.specs.declared.registers.Registers.{Registers};
ghost use Rattle.pe_frame.specs.declared.scan.FoundCall.{FoundCall};
ghost use Rattle.pe_frame.specs.declared.walk.Gap.{Gap};
ghost use Rattle.pe_frame.specs.declared.walk.StackFrame.{StackFrame};
ghost use Rattle.pe_frame.specs.declared.walk.StackFrames.{StackFrames};
ghost use Rattle.pe_frame.specs.declared.walk.Way.TheVariants.{Records, Leaf, Interrupt, FramePointer};
ghost use Rattle.pe_frame.specs.declared.walk.WalkEnd.{WalkEnd};
ghost use Rattle.pe_frame.specs.declared.walk.WalkEnd.TheVariants.{Bottom};

use crate::memory::Memory;
use crate::walk::StackFrames;

/// A whole walk returns the frames of a thread, at most as many as were asked for: the first as it is, and then the caller of
/// each, until there is none, for the reason that the iterator then has, or until as many were returned.
pub fn walks_return_the_frames<M: Memory + 'static>()
    ensures { (s u : StackFrames M) (frames : List StackFrame) →
        YieldsThen ⟦<StackFrames<'static, M> as Iterator>⟧.next_gives s frames None u →
        IsWalk Calls (walk_of M.word s) frames u.position.end
        × (length frames ≤ s.position.remaining) × (u.position.remaining ≡ 0) }
{}

/// There is a walk from each state (`exists`), whatever the function tables of the modules are: the frames from the state on, and
/// why it is over after them. Where the tables are sorted there is one alone, up to the numbers in a refusal (`one`).
pub fn one_result_of_walks()
    ensures exists { (w : FrameWalk Process StackFrame) →
        (frames : List StackFrame) × (end : WalkEnd) × IsWalk Calls w frames end }
    ensures one { (w : FrameWalk Process StackFrame)
        (frames others : List StackFrame) (end other : WalkEnd) →
        AreSortedModules (w.process).modules →
        IsWalk Calls w frames end → IsWalk Calls w others other →
        (frames ≡ others) × (end_kind end ≡ end_kind other) }
{
    pe_unwind::laws::x64::one_record_of_addresses();
}

/// A frame that is found by records is the step from the one before it: with the code of its function in the top frame and in
/// one that was interrupted (`stopped`), without code in one that has called (`called`).
pub fn frames_are_steps()
    ensures stopped { (memory : ℕ → Option ℕ) (modules : List Module) (m : Module) (e : ExceptionView)
        (f : RuntimeFunction) (s t : StackFrame) (plan : List UnwindInfoView) →
        CallsByPlan memory modules m e f s (Ok (Some plan)) (Ok t) →
        (interrupted : Bool) × StepsFromFrame memory m e f plan s (Ok (t.registers, interrupted)) }
    ensures called { (memory : ℕ → Option ℕ) (modules : List Module) (m : Module) (e : ExceptionView)
        (f : RuntimeFunction) (s t : StackFrame) (plan : List UnwindInfoView) →
        s.has_called ≡ true → CallsByPlan memory modules m e f s (Ok (Some plan)) (Ok t) →
        Steps memory plan ((s.registers).rip - m.base - f.begin_address) s.registers
        (Ok t.registers) }
{}

/// Without code there is no epilog: a frame that has called is left by its records alone.
#[tactic(auto, using(crate::proofs::NoCode::no_epilog))]
pub fn no_code_is_no_epilog()
    ensures { (plan : List UnwindInfoView) (start rva : ℕ) → epilog_at plan start rva [] ≡ None }
{}

/// A scan finds the first word that is a return address into executable code (`first`), of the 128 words from an address on. Where
/// it finds none, none of them is (`none`). Which words are says `code_return` of each machine, and from a module whose image is not at
/// hand `record_return`.
#[tactic(auto, using(crate::proofs::Scans::first_found, crate::proofs::Scans::none_found))]
pub fn scans_find_the_first()
    ensures first { (memory returns : ℕ → Option ℕ) (start a w : ℕ) →
        first_return most_words memory returns start ≡ Some (a, w) →
        IsFirstReturn most_words memory returns start a w }
    ensures none { (memory returns : ℕ → Option ℕ) (start k : ℕ) →
        first_return most_words memory returns start ≡ None → k < most_words →
        return_at memory returns (start + 8 * k) ≡ None }
{}

/// A scan for calls that lead somewhere, as into the code without records in which a frame is, finds the one that leads highest, and of
/// several that lead there the first, of the 128 words from an address on (`highest`). Where it finds none, no such call ends at one
/// of them (`none`).
#[tactic(auto, using(crate::proofs::Scans::highest_found, crate::proofs::Scans::none_called))]
pub fn scans_find_the_call_that_leads_highest()
    ensures highest { (memory targets : ℕ → Option ℕ) (start : ℕ) (c : FoundCall) →
        highest_call most_words memory targets start ≡ Some c →
        IsHighestCall most_words memory targets start c }
    ensures none { (memory targets : ℕ → Option ℕ) (start k : ℕ) →
        highest_call most_words memory targets start ≡ None → k < most_words →
        call_at memory targets (start + 8 * k) ≡ None }
{}

/// What a leaf function returns to in a module whose image is not at hand, so that no bytes say whether a call ends there, is its
/// caller before any that a scan would find, as a guess: from code of a module that no records describe (`leaf`), and from code in no
/// module (`outside`).
#[tactic(auto, using(crate::proofs::Found::leaf_first, crate::proofs::Found::outside_first))]
pub fn callers_without_images_come_before_scans()
    ensures leaf { (memory : ℕ → Option ℕ) (modules : List Module) (guess : Bool) (s : StackFrame) (u : Registers) →
        s.has_called ≡ false → popped memory s.registers ≡ Ok u →
        is_after_call modules u.rip ≡ false → may_end_call modules u.rip ≡ true →
        caller_in_code memory modules guess s ≡ Ok (frame_of modules Leaf true u) }
    ensures outside { (memory : ℕ → Option ℕ) (modules : List Module) (s : StackFrame) (u : Registers) →
        s.has_called ≡ false → popped memory s.registers ≡ Ok u →
        is_after_call modules u.rip ≡ false → may_end_call modules u.rip ≡ true →
        caller_outside memory modules s ≡ Ok (frame_of modules Leaf true u) }
{}

/// A frame pointer leads to a record of a frame exactly where it is aligned, the two words are there, the return address at or above
/// the stack pointer, and the frame pointer of the caller is higher or 0 (`found`, `there`). From a frame in code of an image without
/// records the caller is then the one that the record says, as a guess (`followed`). Where a leaf function would return to a caller,
/// or there is no record, it is as without frame pointers (`leaf`, `none`).
#[tactic(auto, using(crate::proofs::FrameRecords::record_found, crate::proofs::FrameRecords::record_there, crate::proofs::Found::chain_followed, crate::proofs::Found::no_chain, crate::proofs::Found::no_record))]
pub fn frame_pointers_lead_to_records()
    ensures found { (memory returns : ℕ → Option ℕ) (stack pointer : ℕ) (c : FrameRecord) →
        frame_record memory returns stack pointer ≡ Some c →
        (c.stack_pointer ≡ pointer + 16)
        × IsFrameRecord memory returns stack pointer c.frame_pointer c.address }
    ensures there { (memory returns : ℕ → Option ℕ) (stack pointer caller address : ℕ) →
        IsFrameRecord memory returns stack pointer caller address →
        frame_record memory returns stack pointer ≡ Some (caller_of_record pointer caller address) }
    ensures followed { (memory : ℕ → Option ℕ) (modules : List Module) (guess : Bool) (s : StackFrame) (r : FrameRecord) →
        (not s.has_called && is_leaf_return modules (popped memory s.registers)) ≡ false →
        record_of memory modules s.registers ≡ Some r →
        caller_in_code memory modules guess s
        ≡ Ok (frame_of modules FramePointer true (returned_by s.registers r)) }
    ensures leaf { (memory : ℕ → Option ℕ) (modules : List Module) (guess : Bool) (s : StackFrame) →
        (not s.has_called && is_leaf_return modules (popped memory s.registers)) ≡ true →
        caller_in_code memory modules guess s ≡ caller_of_leaf memory modules guess s }
    ensures none { (memory : ℕ → Option ℕ) (modules : List Module) (guess : Bool) (s : StackFrame) →
        record_of memory modules s.registers ≡ None →
        caller_in_code memory modules guess s ≡ caller_of_leaf memory modules guess s }
{}

/// Each frame says whether it has called, by its way and the bytes before its instruction pointer (`called`). From a frame that has
/// called only records lead on, or words of the stack: the caller of a leaf function is found from one that has not (`led`).
#[tactic(auto, using(crate::proofs::Found::says_whether, crate::proofs::Found::led_on))]
pub fn frames_say_whether_they_called()
    ensures called { (p : Process) (s t : StackFrame) →
        Calls p s (Ok t) → t.has_called ≡ has_called p.modules t.way (t.registers).rip }
    ensures led { (p : Process) (s t : StackFrame) →
        Calls p s (Ok t) → s.has_called ≡ true →
        (t.way ≡ Records) ⊎ ((t.way ≡ Interrupt) ⊎ (by_words t.way ≡ true)) }
{}

/// What words of the stack lead to, by a scan or a frame pointer, is a guess (`words`), and so is each frame after a guess
/// (`follows`). No other one is but the caller of a leaf function: what records lead to is a guess where the frame before it is (`records`), and so is the caller of code of which a table
/// says that it is a leaf function, where the call is in an executable section too (`leaf`). So the frames of a thread are no guesses
/// up to the first that records do not lead to (`sure`).
pub fn frames_say_whether_they_are_guesses()
    ensures words { (p : Process) (s t : StackFrame) →
        Calls p s (Ok t) → by_words t.way ≡ true → t.is_guess ≡ true }
    ensures follows { (p : Process) (s t : StackFrame) →
        Calls p s (Ok t) → s.is_guess ≡ true → t.is_guess ≡ true }
    ensures records { (p : Process) (s t : StackFrame) →
        Calls p s (Ok t) → by_records t.way ≡ true → t.is_guess ≡ s.is_guess }
    ensures leaf { (memory : ℕ → Option ℕ) (modules : List Module) (m : Module) (e : ExceptionView) (s t : StackFrame) →
        CallsFound memory modules m e s None (Ok t) → t.way ≡ Leaf →
        is_code_of (Some m) (lookup_address s) ≡ true →
        is_code_return modules (t.registers).rip ≡ true → t.is_guess ≡ s.is_guess }
    ensures sure { (p : Process) (g : Registers) (most : ℕ) (first rest : List StackFrame) (end : WalkEnd) →
        IsWalk Calls (starting_walk p (top_frame g) most) (first ++ rest) end →
        AllByRecursion (λ s. by_records s.way ≡ true) first →
        AllByRecursion (λ s. s.is_guess ≡ false) first }
{}

/// A walk of a thread ends at the bottom only if none of its frames is a guess (`whole`). There a caller's instruction pointer is 0,
/// to which records led from a frame that is no guess, and no frame is found from that caller's registers (`records`). A frame that
/// no records describe is never the bottom: in no function of a module (`leaf`, `gap`), or in no module (`outside`).
pub fn bottoms_are_returns_to_0()
    ensures records { (memory : ℕ → Option ℕ) (modules : List Module) (m : Module) (e : ExceptionView)
        (f : RuntimeFunction) (s : StackFrame) (plan : List UnwindInfoView) →
        CallsByPlan memory modules m e f s (Ok (Some plan)) (Err Bottom) →
        (u : Registers) × StepsFromFrame memory m e f plan s (Ok (u, false))
        × (u.rip ≡ 0) × (without_records memory modules true u ≡ None) × (s.is_guess ≡ false) }
    ensures leaf { (memory : ℕ → Option ℕ) (modules : List Module) (guess : Bool) (s : StackFrame) →
        caller_in_code memory modules guess s ≢ Err Bottom }
    ensures gap { (memory : ℕ → Option ℕ) (modules : List Module) (guess : Bool) (gap : Gap) (s : StackFrame) →
        caller_in_gap memory modules guess gap s ≢ Err Bottom }
    ensures outside { (memory : ℕ → Option ℕ) (modules : List Module) (s : StackFrame) →
        caller_outside memory modules s ≢ Err Bottom }
    ensures whole { (p : Process) (g : Registers) (most : ℕ) (frames : List StackFrame) →
        IsWalk Calls (starting_walk p (top_frame g) most) frames Bottom →
        AllByRecursion (λ s. s.is_guess ≡ false) frames }
{}
