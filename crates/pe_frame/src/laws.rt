//! Laws over the definitions. Each is the contract of a function that does nothing.

pub mod arm64;
pub mod arm64_walks;
pub mod constants;
pub mod jumps;
pub mod modules;
pub mod walks;

ghost use Rattle.std.specs.Prelude.{◌≡◌, ◌↔◌, ℕ, ◌+◌, ◌-◌, ◌^◌, ◌<◌, ◌≤◌, length, slice_index, true, List, Option, None, Some, Result, Ok, [], ◌∷◌};
ghost use Rattle.pe_core.specs.Traits.{IsEquality};
ghost use Rattle.pe_unwind.specs.UnwindRecord.{UnwindInfoView};
ghost use Rattle.pe_frame.specs.declared.error.FrameError.{FrameError};
ghost use Rattle.pe_frame.specs.declared.registers.Registers.{Registers};
ghost use Rattle.pe_frame.specs.Memory.{stack_word};
ghost use Rattle.pe_frame.specs.MemoryPieces.{ArePiecesOf, have_byte, pieces_word};
ghost use Rattle.pe_lookup.specs.AddressRanges.{AreAscending};
ghost use Rattle.pe_frame.specs.MemoryLists.{AreListed, ArePieces, are_inside, ascend, list_byte, listed_word};
ghost use Rattle.pe_frame.specs.SearchedMemory.{searched_word};
ghost use Rattle.pe_frame.specs.declared.memory.Stack.{Stack};
ghost use Rattle.pe_frame.specs.declared.memory_list.MemoryPiece.{MemoryPiece};
ghost use Rattle.pe_frame.specs.Machine.{loaded};
ghost use Rattle.pe_frame.specs.Frames.{Part, infos, left, registers_of, AreFrames, IsCaller};
ghost use Rattle.pe_frame.specs.Samples.{all_known, home_part, inner_part, framed_part, interrupt_part, late_part, pushed_part, told_part};
ghost use Rattle.pe_frame.specs.Steps.{Steps, frame_register_in, by_kind};
ghost use Rattle.pe_frame.specs.declared.epilog.Instruction.TheVariants.{Add, Lea, Pop, Return, Jump, JumpByOperand};
ghost use Rattle.pe_frame.specs.declared.epilog.Instruction.{Instruction};
ghost use Rattle.pe_frame.specs.Undoing.{ran};
ghost use Rattle.pe_frame.specs.Epilogs.{epilog_at, StepsWithCode};
ghost use Rattle.pe_frame.specs.EpilogFrames.{IsEpilogOf, IsEpilogOfParts, IsInEpilog, IsReady, AreReady};

use crate::registers::Registers;

/// A step has a result, and one alone, up to the numbers in a refusal of codes.
#[tactic(auto, using(crate::proofs::OneStep::some_step))]
pub fn one_result_of_steps()
    ensures exists { (m : ℕ → Option ℕ) (plan : List UnwindInfoView) (offset : ℕ) (g : Registers) →
        (x : Result Registers FrameError) × Steps m plan offset g x }
    ensures one { (m : ℕ → Option ℕ) (plan : List UnwindInfoView)
        (offset : ℕ) (g : Registers) (x y : Result Registers FrameError) →
        Steps m plan offset g x → Steps m plan offset g y → by_kind x ≡ by_kind y }
{}

/// A step with the code has a result, and one alone, up to the numbers in a refusal of codes.
pub fn one_result_of_steps_with_code()
    ensures exists { (m : ℕ → Option ℕ)
        (plan : List UnwindInfoView) (start rva : ℕ) (code : List ℕ) (g : Registers) →
        (x : Result Registers FrameError) × StepsWithCode m plan start rva code g x }
    ensures one { (m : ℕ → Option ℕ) (plan : List UnwindInfoView)
        (start rva : ℕ) (code : List ℕ) (g : Registers) (x y : Result Registers FrameError) →
        StepsWithCode m plan start rva code g x →
        StepsWithCode m plan start rva code g y → by_kind x ≡ by_kind y }
{}

/// There are such epilogs: one that frees stack by `add`; one that does by `lea` from the frame register, after a prolog that
/// allocated stack before and after it set that register, and saved a register in between; one in a part of a function; and two
/// that pop a register which was pushed after the frame register was set, by `add` and by `lea`. Their prologs are those of frames. In the prolog
/// there is no epilog, nor where a jump stays in the function; one to its start leaves it. A jump by a register alone stays; with
/// REX.W it leaves, and so it does after a pop.
#[tactic(auto, using(crate::proofs::Samples::chained, crate::proofs::Samples::chained_ready, crate::proofs::Samples::pushed, crate::proofs::Samples::framed, crate::proofs::Samples::framed_ready, crate::proofs::Samples::late, crate::proofs::Samples::late_ready), unfolding(pe_core::specs::Bytes::le, crate::specs::Epilogs::operand, crate::specs::Epilogs::add_at, crate::specs::Epilogs::lea_at, crate::specs::Epilogs::pop_at, crate::specs::Epilogs::popped_first, crate::specs::Epilogs::after_pops, crate::specs::Epilogs::jump_at, crate::specs::Epilogs::marked_jump, crate::specs::Epilogs::unmarked_jump, crate::specs::Epilogs::return_number, crate::specs::Epilogs::exit_at))]
pub fn epilogs_are_there()
    ensures added { epilog_at (infos (pushed_part ∷ [])) 0x1000 0x1040
        (0x48 ∷ 0x83 ∷ 0xC4 ∷ 0x20 ∷ 0x5B ∷ 0xC3 ∷ []) ≡ Some (Add 32 ∷ Pop 3 ∷ Return 0 ∷ []) }
    ensures of_added { IsEpilogOf (frame_register_in pushed_part.info)
        (ran None pushed_part.codes) (Add 32 ∷ Pop 3 ∷ Return 0 ∷ []) }
    ensures pushed { AreFrames (all_known (left None pushed_part))
        (pushed_part ∷ []) None (registers_of (left None pushed_part)) }
    ensures loaded { epilog_at (infos (framed_part ∷ [])) 0x1000 0x1040 (0x48 ∷ 0x8D
        ∷ 0x65 ∷ 0x20 ∷ 0x5B ∷ 0x5D ∷ 0xC3 ∷ []) ≡ Some (Lea 5 32 ∷ Pop 3 ∷ Pop 5 ∷ Return 0 ∷ []) }
    ensures of_loaded { IsEpilogOf (frame_register_in framed_part.info)
        (ran None framed_part.codes) (Lea 5 32 ∷ Pop 3 ∷ Pop 5 ∷ Return 0 ∷ []) }
    ensures ready { IsReady (frame_register_in framed_part.info)
        (ran None framed_part.codes) framed_part.entry (Lea 5 32 ∷ Pop 3 ∷ Pop 5 ∷ Return 0 ∷ [])
        (registers_of (left None framed_part)) }
    ensures framed { AreFrames (all_known (left None framed_part))
        (framed_part ∷ []) None (registers_of (left None framed_part)) }
    ensures in_a_part { epilog_at (infos (inner_part ∷ home_part ∷ [])) 0x1000 0x1040
        (0x48 ∷ 0x83 ∷ 0xC4 ∷ 0x20 ∷ 0x5F ∷ 0xC3 ∷ []) ≡ Some (Add 32 ∷ Pop 7 ∷ Return 0 ∷ []) }
    ensures of_parts { IsEpilogOfParts
        (inner_part ∷ home_part ∷ []) (Add 32 ∷ Pop 7 ∷ Return 0 ∷ []) }
    ensures parts_ready { AreReady (inner_part ∷ home_part ∷ [])
        (Add 32 ∷ Pop 7 ∷ Return 0 ∷ []) (registers_of (left None inner_part)) }
    ensures parts { AreFrames (all_known (left None inner_part))
        (inner_part ∷ home_part ∷ []) None (registers_of (left None inner_part)) }
    ensures after_the_frame { epilog_at (infos (late_part ∷ [])) 0x1000 0x1040
        (0x48 ∷ 0x83 ∷ 0xC4 ∷ 0x20 ∷ 0x5B ∷ 0x5D ∷ 0xC3 ∷ [])
        ≡ Some (Add 32 ∷ Pop 3 ∷ Pop 5 ∷ Return 0 ∷ []) }
    ensures of_late { IsEpilogOf (frame_register_in late_part.info)
        (ran None late_part.codes) (Add 32 ∷ Pop 3 ∷ Pop 5 ∷ Return 0 ∷ []) }
    ensures late_ready { IsReady (frame_register_in late_part.info)
        (ran None late_part.codes) late_part.entry (Add 32 ∷ Pop 3 ∷ Pop 5 ∷ Return 0 ∷ [])
        (registers_of (left None late_part)) }
    ensures late { AreFrames (all_known (left None late_part))
        (late_part ∷ []) None (registers_of (left None late_part)) }
    ensures led_back { epilog_at (infos (late_part ∷ [])) 0x1000 0x1040 (0x48 ∷ 0x8D
        ∷ 0x65 ∷ 0xF8 ∷ 0x5B ∷ 0x5D ∷ 0xC3 ∷ [])
        ≡ Some (Lea 5 0xFFFFFFFFFFFFFFF8 ∷ Pop 3 ∷ Pop 5 ∷ Return 0 ∷ []) }
    ensures of_led_back { IsEpilogOf (frame_register_in late_part.info) (ran None late_part.codes)
        (Lea 5 0xFFFFFFFFFFFFFFF8 ∷ Pop 3 ∷ Pop 5 ∷ Return 0 ∷ []) }
    ensures led_back_ready { IsReady (frame_register_in late_part.info)
        (ran None late_part.codes) late_part.entry
        (Lea 5 0xFFFFFFFFFFFFFFF8 ∷ Pop 3 ∷ Pop 5 ∷ Return 0 ∷ []) (registers_of (left None late_part)) }
    ensures in_the_prolog { epilog_at
        (infos (pushed_part ∷ [])) 0x1000 0x1004 (0x5B ∷ 0xC3 ∷ []) ≡ None }
    ensures jumped { epilog_at (infos (pushed_part ∷ [])) 0x1000 0x1040 (0xEB ∷ 0xBF ∷ []) ≡ None }
    ensures again { epilog_at
        (infos (pushed_part ∷ [])) 0x1000 0x1040 (0xEB ∷ 0xBE ∷ []) ≡ Some (Jump 0x1000 ∷ []) }
    ensures left { epilog_at
        (infos (pushed_part ∷ [])) 0x1000 0x1040 (0xEB ∷ 0xBD ∷ []) ≡ Some (Jump 0xFFF ∷ []) }
    ensures switched { epilog_at
        (infos (pushed_part ∷ [])) 0x1000 0x1040 (0xFF ∷ 0xE0 ∷ []) ≡ None }
    ensures marked { epilog_at (infos (pushed_part ∷ [])) 0x1000 0x1040
        (0x48 ∷ 0xFF ∷ 0x60 ∷ 0x18 ∷ []) ≡ Some (JumpByOperand ∷ []) }
    ensures popped { epilog_at (infos (pushed_part ∷ [])) 0x1000 0x1040
        (0x5B ∷ 0xFF ∷ 0xE0 ∷ []) ≡ Some (Pop 3 ∷ JumpByOperand ∷ []) }
{}

/// What is left of an epilog leads to the caller. A machine ran the prolog of a function, which pushed registers before it
/// allocated stack, and in any order set a frame register, allocated stack and saved registers by stores, each of which it may not
/// do. It may have come to parts of the function that only saved registers. What stores saved was restored. The instruction that
/// frees stack is `add`, or `lea` from the frame register, past what was allocated before that was set or back over what was
/// pushed since. From there on the first instructions of the epilog ran, and the code has the others: a step with the code then returns the registers of the
/// caller. A register that is pushed after an allocation has no epilog of the forms that a step knows: its pop would come
/// before the instruction that frees stack.
pub fn epilogs_return_to_the_caller()
    ensures { (m : ℕ → Option ℕ) (p : Part) (parts : List Part)
        (before rest : List Instruction) (i : Instruction)
        (start rva : ℕ) (code : List ℕ) (g h : Registers) (x : Result Registers FrameError) →
        IsInEpilog m (p ∷ parts) before (i ∷ rest) start rva code g h →
        StepsWithCode m (infos (p ∷ parts)) start rva code h x →
        (u : Registers) × (x ≡ Ok u) × IsCaller (p ∷ parts) None g u }
{}

/// A step undoes what the prologs of a function did: where a machine ran them and stopped in the innermost part, after its
/// prolog (`whole`) or inside of it (`begun`), a step returns the registers of the caller. Each register has the value from
/// the entry of the outermost part that saved it, or the one that it has where no part did. The known memory has to show the
/// words that the prologs stored, and the return address; what the bodies did to other registers and memory does not matter.
pub fn prologs_are_undone()
    ensures whole { (m : ℕ → Option ℕ) (p : Part) (parts : List Part) (offset : ℕ)
        (g : Registers) (x : Result Registers FrameError) → p.info.size_of_prolog ≤ offset →
        AreFrames m (p ∷ parts) None g → Steps m (infos (p ∷ parts)) offset g x →
        (u : Registers) × (x ≡ Ok u) × IsCaller (p ∷ parts) None g u }
    ensures begun { (m : ℕ → Option ℕ) (p : Part) (parts : List Part) (offset : ℕ)
        (g : Registers) (x : Result Registers FrameError) → offset < p.info.size_of_prolog →
        AreFrames m (p ∷ parts) (Some offset) g → Steps m (infos (p ∷ parts)) offset g x →
        (u : Registers) × (x ≡ Ok u) × IsCaller (p ∷ parts) (Some offset) g u }
{}

/// Bytes of a stack that are those of a machine's memory show what the memory has.
pub fn stacks_show_memory()
    ensures { (bytes : List ℕ) (start a : ℕ) (memory : ℕ → ℕ) →
        start ≤ a → a + 8 ≤ start + length bytes →
        a + 8 ≤ 2 ^ 64 → ((i : ℕ) → i < 8 → slice_index bytes (a - start + i) ≡ memory (a + i)) →
        stack_word bytes start a ≡ Some (loaded memory a) }
{}

/// Memory in pieces shows what a machine's memory has, in whatever order the pieces stand and however they overlap, as far as
/// one of them has each byte. One piece is a stack.
#[tactic(auto, using(crate::proofs::PiecesShow::one_piece, crate::proofs::PiecesShow::word_of_pieces))]
pub fn pieces_show_memory()
    ensures shown { (pieces : List Stack) (a : ℕ) (memory : ℕ → ℕ) →
        ArePiecesOf memory pieces → ((i : ℕ) → i < 8 → have_byte (a + i) pieces ≡ true) →
        a + 8 ≤ 2 ^ 64 → pieces_word pieces a ≡ Some (loaded memory a) }
    ensures one { (s : Stack) (a : ℕ) →
        pieces_word (s ∷ []) a ≡ stack_word s.bytes.now s.start a }
{}

/// A list of pieces in some bytes shows what a machine's memory has in the same way. It is the memory of the pieces that it
/// lists.
#[tactic(auto, using(crate::proofs::ListsShow::word_of_its_pieces, crate::proofs::ListsShow::word_of_list))]
pub fn memory_lists_show_memory()
    ensures shown { (bytes : List ℕ) (pieces : List MemoryPiece) (a : ℕ) (memory : ℕ → ℕ) →
        AreListed memory bytes pieces → ((i : ℕ) → i < 8 → list_byte (a + i) pieces ≡ true) →
        a + 8 ≤ 2 ^ 64 → listed_word bytes pieces a ≡ Some (loaded memory a) }
    ensures pieces { (bytes : List ℕ) (listed : List MemoryPiece) (pieces : List Stack) (a : ℕ) →
        ArePieces bytes listed pieces → listed_word bytes listed a ≡ pieces_word pieces a }
{}

/// Memory that is searched is the memory of the list, where its pieces lie in the bytes, are in ascending order and do not overlap
/// (`words`). The test of their order decides the latter (`order`). Of pieces in any order that show what a machine's memory has, a
/// word that is known is that of the memory (`any`).
pub fn searched_memory_is_listed()
    ensures words { (bytes : List ℕ) (pieces : List MemoryPiece) (a : ℕ) →
        are_inside bytes pieces ≡ true → ascend pieces ≡ true →
        searched_word bytes pieces a ≡ listed_word bytes pieces a }
    ensures order { (pieces : List MemoryPiece) →
        ((ascend pieces ≡ true) ↔ AreAscending (λ p. p.start) (λ p. p.length) pieces) }
    ensures any { (bytes : List ℕ) (pieces : List MemoryPiece) (a v : ℕ) (memory : ℕ → ℕ) →
        AreListed memory bytes pieces → searched_word bytes pieces a ≡ Some v → v ≡ loaded memory a }
{}

/// There are such frames: of a part in the body of a function, of one with a frame register, after its prolog and inside of
/// it, of an interrupt, and inside of a prolog whose record of version 2 also says where epilogs are.
#[tactic(auto, using(crate::proofs::Samples::chained, crate::proofs::Samples::framed, crate::proofs::Samples::begun, crate::proofs::Samples::interrupted, crate::proofs::Samples::told))]
pub fn prologs_are_there()
    ensures chained { AreFrames (all_known (left None inner_part))
        (inner_part ∷ home_part ∷ []) None (registers_of (left None inner_part)) }
    ensures framed { AreFrames (all_known (left None framed_part))
        (framed_part ∷ []) None (registers_of (left None framed_part)) }
    ensures begun { AreFrames (all_known (left (Some 11) framed_part))
        (framed_part ∷ []) (Some 11) (registers_of (left (Some 11) framed_part)) }
    ensures interrupted { AreFrames (all_known (left None interrupt_part))
        (interrupt_part ∷ []) None (registers_of (left None interrupt_part)) }
    ensures told { AreFrames (all_known (left (Some 1) told_part))
        (told_part ∷ []) (Some 1) (registers_of (left (Some 1) told_part)) }
{}

/// Two registers of a thread are equal if all of them are.
pub fn equality_is_of_all_registers()
    ensures { IsEquality ⟦<Registers as PartialEq>⟧.eq }
{}
