//! Laws of steps on ARM64.

ghost use Rattle.std.specs.Prelude.{◌≡◌, ℕ, ◌+◌, ◌-◌, ◌<◌, ◌≤◌, ◌⊎◌, All, true, List, take, drop, Option, Some, None, Result, Ok};
ghost use Rattle.pe_core.specs.Traits.{IsEquality};
ghost use Rattle.pe_unwind.specs.Arm64Record.{Arm64InfoView};
ghost use Rattle.pe_unwind.specs.Arm64Words.{bits};
ghost use Rattle.pe_unwind.specs.declared.arm64.codes.Arm64UnwindCode.{Arm64UnwindCode};
ghost use Rattle.pe_frame.specs.declared.arm64.epilog.Arm64Epilog.{Arm64Epilog};
ghost use Rattle.pe_frame.specs.declared.arm64.registers.Arm64Registers.{Arm64Registers};
ghost use Rattle.pe_frame.specs.declared.error.FrameError.{FrameError};
ghost use Rattle.pe_frame.specs.Steps.{by_kind};
ghost use Rattle.pe_frame.specs.Arm64Steps.{CodesThen, AreOver, prolog_length, ran_arm64, epilog_at, epilog_start, epilog_start_in, Leaves, StepsArm64};
ghost use Rattle.pe_frame.specs.Arm64Packed.{packed_frame, packed_codes, epilog_codes, packed_left, is_canonical, stepped_arm64_packed};
ghost use Rattle.pe_frame.specs.Arm64Operations.{all_effects};
ghost use Rattle.pe_frame.specs.Arm64Undoing.{reverted_all};
ghost use Rattle.pe_frame.specs.Arm64Frames.{Arm64Part, IsArm64Frame, ReturnsArm64Caller};
ghost use Rattle.pe_frame.specs.Arm64Samples.{chained_part, chained_bytes, signed_part, signed_bytes, packed_part, packed_data, stopped, arm64_registers_of, all_known_arm64};

use crate::arm64::Arm64Registers;

/// A step has a result, and one alone, up to the numbers in an error of codes.
pub fn one_result_of_arm64_steps()
    ensures exists { (m : ℕ → Option ℕ) (i : Arm64InfoView) (place : ℕ) (g : Arm64Registers) →
        All (λ x. x < 256) i.codes →
        (x : Result Arm64Registers FrameError) × StepsArm64 m i place g x }
    ensures one { (m : ℕ → Option ℕ) (i : Arm64InfoView) (place : ℕ)
        (g : Arm64Registers) (x y : Result Arm64Registers FrameError) →
        StepsArm64 m i place g x → StepsArm64 m i place g y → by_kind x ≡ by_kind y }
{}

/// A step undoes what the prolog of a function did: where a machine ran it and stopped after it or between two of its
/// instructions, or in an epilog that has undone its last ones, a step returns the registers of the caller. These are the stack pointer and the link register from the
/// function's entry, and in each other register the value from there, if the prolog stored it, or the one that it has. The
/// known memory has to show what the prolog stored. `stand` is how many of its instructions have run and are not undone: the
/// record has to leave their codes at this place. The link register has to be stored, or as the prolog left it; what the
/// body did to other registers and memory does not matter.
pub fn arm64_prologs_are_undone()
    ensures { (m : ℕ → Option ℕ) (i : Arm64InfoView) (p : Arm64Part) (place stand : ℕ)
        (g : Arm64Registers) →
        Leaves i place (Ok (ran_arm64 stand p.codes)) →
        IsArm64Frame p stand m g → ReturnsArm64Caller m i p place stand g g }
{}

/// From each instruction of an epilog a step returns the caller that it returns from the epilog's start: there the whole prolog
/// stands, and the body may have changed registers and memory. `run` instructions of the epilog have restored what they say.
pub fn arm64_epilogs_return_to_the_caller()
    ensures { (m : ℕ → Option ℕ) (i : Arm64InfoView) (p : Arm64Part) (place run : ℕ)
        (g now : Arm64Registers) → Leaves i place (Ok (drop run p.codes)) →
        IsArm64Frame p (prolog_length p.codes) m g →
        reverted_all m (all_effects (take run p.operations)) g ≡ Ok now →
        ReturnsArm64Caller m i p place (prolog_length p.codes) g now }
{}

/// What a record leaves to be undone: in the prolog the codes of the instructions that have run, in an epilog and at its return
/// those of the epilog that have not, and else all codes of the prolog.
pub fn arm64_places_leave_their_codes()
    ensures prolog { (i : Arm64InfoView) (place : ℕ) (cs : List Arm64UnwindCode) →
        CodesThen AreOver i.codes cs → place < prolog_length cs →
        Leaves i place (Ok (ran_arm64 place cs)) }
    ensures body { (i : Arm64InfoView) (place : ℕ) (cs : List Arm64UnwindCode) →
        CodesThen AreOver i.codes cs → prolog_length cs ≤ place →
        epilog_at i place ≡ None → Leaves i place (Ok (ran_arm64 place cs)) }
    ensures epilog { (i : Arm64InfoView) (place run : ℕ)
        (cs es : List Arm64UnwindCode) (e : Arm64Epilog) →
        CodesThen AreOver i.codes cs → prolog_length cs ≤ place →
        epilog_at i place ≡ Some e → CodesThen AreOver (drop e.index i.codes) es →
        place ≡ epilog_start_in i e es + run →
        run ≤ prolog_length es → Leaves i place (Ok (ran_arm64 (prolog_length es - run) es)) }
    ensures outside { (i : Arm64InfoView) (place : ℕ)
        (cs es : List Arm64UnwindCode) (e : Arm64Epilog) →
        CodesThen AreOver i.codes cs → prolog_length cs ≤ place →
        epilog_at i place ≡ Some e → CodesThen AreOver (drop e.index i.codes) es →
        (place < epilog_start_in i e es)
        ⊎ (epilog_start_in i e es + prolog_length es
        < place) →
        Leaves i place (Ok (ran_arm64 place cs)) }
{}

/// What packed unwind data leave to be undone: in the prolog the codes of the instructions that have run, in the epilog of a
/// function and at its return those of the epilog that have not.
#[tactic(auto, using(crate::proofs::Arm64Packed::left_prolog, crate::proofs::Arm64Packed::left_epilog))]
pub fn packed_places_leave_their_codes()
    ensures prolog { (d place : ℕ) → place < prolog_length (packed_codes d) →
        packed_left d place ≡ ran_arm64 place (packed_codes d) }
    ensures epilog { (d place run : ℕ) →
        bits d 0 2 ≡ 1 → prolog_length (packed_codes d) ≤ place →
        place ≡ epilog_start (bits d 2 11) None
        (prolog_length (epilog_codes (packed_frame d))) + run →
        run ≤ prolog_length (epilog_codes (packed_frame d)) →
        packed_left d place ≡ ran_arm64
        (prolog_length (epilog_codes (packed_frame d)) - run)
        (epilog_codes (packed_frame d)) }
{}

/// A step by packed unwind data is one by a record that leaves the codes of their canonical prolog or epilog.
pub fn packed_entries_are_their_codes()
    ensures { (m : ℕ → Option ℕ) (d : ℕ) (i : Arm64InfoView) (place : ℕ)
        (g : Arm64Registers) (x : Result Arm64Registers FrameError) →
        is_canonical d ≡ true → Leaves i place (Ok (packed_left d place)) →
        StepsArm64 m i place g x → stepped_arm64_packed m d place g ≡ x }
{}

/// There are such frames: of a function with a frame chain, after its prolog and inside of it; of one that signs its
/// return address and stores three pairs of registers; and of one with packed unwind data.
#[tactic(auto, using(crate::proofs::Arm64Samples::chained_codes, crate::proofs::Arm64Samples::signed_codes, crate::proofs::Arm64Samples::chained, crate::proofs::Arm64Samples::begun, crate::proofs::Arm64Samples::signed, crate::proofs::Arm64Samples::packed_codes_are, crate::proofs::Arm64Samples::packed))]
pub fn arm64_prologs_are_there()
    ensures chained_codes { CodesThen AreOver chained_bytes chained_part.codes }
    ensures signed_codes { CodesThen AreOver signed_bytes signed_part.codes }
    ensures packed_codes { packed_part.codes ≡ packed_codes packed_data }
    ensures canonical { is_canonical packed_data ≡ true }
    ensures chained { IsArm64Frame chained_part 5
        (all_known_arm64 (stopped 5 chained_part)) (arm64_registers_of (stopped 5 chained_part)) }
    ensures begun { IsArm64Frame chained_part 2
        (all_known_arm64 (stopped 2 chained_part)) (arm64_registers_of (stopped 2 chained_part)) }
    ensures signed { IsArm64Frame signed_part 4
        (all_known_arm64 (stopped 4 signed_part)) (arm64_registers_of (stopped 4 signed_part)) }
    ensures packed { IsArm64Frame packed_part 3
        (all_known_arm64 (stopped 3 packed_part)) (arm64_registers_of (stopped 3 packed_part)) }
{}

/// Two registers of a thread are equal if all of them are.
pub fn equality_is_of_all_arm64_registers()
    ensures { IsEquality ⟦<Arm64Registers as PartialEq>⟧.eq }
{}
