//! Laws of steps that follow a jump out of a function.

ghost use Rattle.std.specs.Prelude.{◌≡◌, ◌≤◌, ℕ, Bool, List, ◌∷◌, None, Result};
ghost use Rattle.pe_unwind.specs.UnwindRecord.{UnwindInfoView};
ghost use Rattle.pe_frame.specs.declared.epilog.Instruction.{Instruction};
ghost use Rattle.pe_frame.specs.declared.error.FrameError.{FrameError};
ghost use Rattle.pe_frame.specs.declared.registers.Registers.{Registers};
ghost use Rattle.pe_frame.specs.Frames.{Part};
ghost use Rattle.pe_frame.specs.JumpFrames.{HasLeft, ImageStep, IsSorted, JumpsToEntry, JumpsToFrame, LeadsTo, ReturnsCaller, ReturnsCallerAt, StandsInEpilog, StepReturns};
ghost use Rattle.pe_frame.specs.Steps.{by_kind};
ghost use Rattle.pe_frame.specs.Undoing.{stack_pointer};

/// A jump is followed. What is left of an epilog ends with a jump to a place in a function that the image has, and a machine
/// that ran it up to the jump is there in a frame of that function and its parts: a step in the image then returns the caller of
/// that frame. It is the same caller at the jump and at its target, since a jump changes no other register. The instructions
/// before the jump have not lowered the stack pointer, as `add` and pops never do.
#[tactic(auto, using(crate::proofs::Jumps::followed))]
pub fn jumps_are_followed()
    ensures { (s : ImageStep) (plan : List UnwindInfoView) (offset : ℕ) (rest : List Instruction)
        (p : Part) (parts : List Part) (g h : Registers) →
        HasLeft s plan rest → IsSorted s → JumpsToFrame s rest (p ∷ parts) offset g h →
        stack_pointer g ≤ stack_pointer h →
        ReturnsCallerAt s plan (p ∷ parts) offset g h }
{
    pe_unwind::laws::x64::one_record_of_addresses();
}

/// What is left of an epilog leads to the caller in an image too, as `epilogs_return_to_the_caller` says: where it ends with
/// anything but a jump to an RVA, or no function whose records can be read covers that RVA (`left`); and where it jumps to a place
/// at which nothing of a function has run, as its first byte (`entered`).
pub fn epilogs_return_to_the_caller_in_images()
    ensures left { (s : ImageStep) (p : Part) (parts : List Part) (before rest : List Instruction)
        (i : Instruction) (g h : Registers) →
        StandsInEpilog s (p ∷ parts) before (i ∷ rest) g h → IsSorted s →
        LeadsTo s (i ∷ rest) None →
        ReturnsCaller s (p ∷ parts) g h }
    ensures entered { (s : ImageStep) (p : Part) (parts : List Part)
        (before rest : List Instruction) (i : Instruction) (g h : Registers) →
        StandsInEpilog s (p ∷ parts) before (i ∷ rest) g h → IsSorted s →
        JumpsToEntry s (i ∷ rest) h → ReturnsCaller s (p ∷ parts) g h }
{
    pe_unwind::laws::x64::one_record_of_addresses();
}

/// A step in an image has a result (`exists`), and where the function table is sorted by start RVA one alone, up to the numbers
/// in a refusal of codes (`one`).
pub fn one_result_of_steps_in_images()
    ensures exists { (s : ImageStep) (plan : List UnwindInfoView) (g : Registers) →
        (x : Result (Registers × Bool) FrameError) × StepReturns s plan g x }
    ensures one { (s : ImageStep) (plan : List UnwindInfoView) (g : Registers)
        (x y : Result (Registers × Bool) FrameError) → IsSorted s →
        StepReturns s plan g x →
        StepReturns s plan g y → by_kind x ≡ by_kind y }
{
    pe_unwind::laws::x64::one_record_of_addresses();
}
