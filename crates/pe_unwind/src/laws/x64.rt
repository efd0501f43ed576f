//! Laws of x64: lookup, links, unwind codes, registers and scope tables.

ghost use Rattle.std.specs.Prelude.{◌≡◌, ◌+◌, ◌/◌, ◌<◌, ◌≤◌, ◌↔◌, ℕ, List, length, Option, Some, Result, Err, IsSome, IsTrue, map, Ok};
ghost use Rattle.std.specs.Iterator.{Drains};
ghost use Rattle.std.specs.List.{Any};
ghost use Rattle.std.specs.Ordering.{nat_cmp};
ghost use Rattle.std.specs.declared.cmp.Ordering.TheVariants.{Equal};
ghost use Rattle.pe_core.specs.Refusals.{Refusal, Memory, FunctionCycle, outcome, answer_of};
ghost use Rattle.pe_core.specs.declared.data_directories.DataDirectory.{DataDirectory};
ghost use Rattle.pe_core.specs.declared.error.Error.{Error};
ghost use Rattle.pe_core.specs.declared.options.ParseOptions.{ParseOptions};
ghost use Rattle.pe_core.specs.declared.section_table.SectionTable.{SectionTable};
ghost use Rattle.pe_unwind.specs.declared.unwind_code.TheConstants.{UWOP_ALLOC_LARGE, UWOP_ALLOC_SMALL, UWOP_EPILOG, UWOP_PUSH_MACHFRAME, UWOP_PUSH_NONVOL, UWOP_SAVE_NONVOL, UWOP_SAVE_NONVOL_FAR, UWOP_SAVE_XMM128, UWOP_SAVE_XMM128_FAR, UWOP_SET_FPREG, UWOP_SPARE_CODE};
ghost use Rattle.pe_unwind.specs.declared.function_table.RuntimeFunction.{RuntimeFunction};
ghost use Rattle.pe_unwind.specs.declared.register.Register.{Register};
ghost use Rattle.pe_unwind.specs.declared.scope_table.ScopeTableEntry.{ScopeTableEntry};
ghost use Rattle.pe_unwind.specs.declared.unwind_code.UnwindCode.{UnwindCode};
ghost use Rattle.pe_unwind.specs.declared.unwind_code.UnwindCodeIterator.{UnwindCodeIterator};
ghost use Rattle.pe_unwind.specs.CodeStream.{CodeStream, AreItems, stream_of};
ghost use Rattle.pe_unwind.specs.ExceptionTable.{ExceptionView, exception_at};
ghost use Rattle.pe_unwind.specs.FunctionTable.{NeverFalls, NoEndPassesNext, Covers, Finds, functions};
ghost use Rattle.pe_unwind.specs.Links.{Table, Follows, IsEndless};
ghost use Rattle.pe_unwind.specs.Offsets.{UnwindPartsStand};
ghost use Rattle.pe_unwind.specs.UnwindCodes.{StartsWithCode};
ghost use Rattle.pe_unwind.specs.UnwindRecord.{UnwindInfoView, unwind_tests, unwind_record};
ghost use Rattle.pe_unwind.specs.Unwinding.{Unwinds};

use crate::register::Register;
use crate::scope_table::ScopeTableEntry;
use crate::unwind_code::UnwindCodeIterator;
use std::hash::Hash;

/// In a table that is sorted by start RVA and in which no end passes the next start, lookup finds an entry exactly if
/// some entry covers the RVA.
#[tactic(auto, using(crate::proofs::Disjoint::finds_covering))]
pub fn disjoint_functions()
    ensures { (fs : List RuntimeFunction) (a : ℕ) (found : Option RuntimeFunction) →
        NeverFalls fs → NoEndPassesNext fs → Finds fs a found → (IsSome found ↔ Any (Covers a) fs) }
{}

/// Registers are ordered, and equal, by their numbers.
pub fn registers_in_order()
    ensures order { (r s : Register) → ⟦<Register as Ord>⟧.cmp r s ≡ nat_cmp r.0 s.0 }
    ensures partial { (r s : Register) →
        ⟦<Register as PartialOrd>⟧.partial_cmp r s ≡ Some (nat_cmp r.0 s.0) }
    ensures ties { (r s : Register) →
        (⟦<Register as Ord>⟧.cmp r s ≡ Equal) ↔ IsTrue (⟦<Register as PartialEq>⟧.eq r s) }
    ensures equal { (r s : Register) → IsTrue (⟦<Register as PartialEq>⟧.eq r s) ↔ (r ≡ s) }
{}

/// Equal entries of a scope table hash alike.
pub fn equal_scopes_hash_alike()
    ensures { (x y : ScopeTableEntry) → IsTrue (⟦<ScopeTableEntry as PartialEq>⟧.eq x y) →
        ⟦<ScopeTableEntry as Hash>⟧.hash_input x ≡ ⟦<ScopeTableEntry as Hash>⟧.hash_input y }
{}

/// The items that an iterator of unwind codes returns are the items of its stream. Every stream has a list of items.
/// Bytes start with at most one code, so there is only one such list, up to the numbers in an error.
#[tactic(auto, using(crate::proofs::Streams::one_code, crate::proofs::Streams::one_reading, crate::proofs::Streams::some_items))]
pub fn one_stream_of_codes()
    ensures whole { (s : UnwindCodeIterator) (xs : List (Result UnwindCode Error)) →
        Drains ⟦<UnwindCodeIterator<'static> as Iterator>⟧.next_gives s xs →
        AreItems (stream_of s) xs }
    ensures code { (v f : ℕ) (b : List ℕ) (c d : UnwindCode) (m n : ℕ) →
        StartsWithCode v f b c m → StartsWithCode v f b d n → (c ≡ d) × (m ≡ n) }
    ensures exists { (s : CodeStream) → (xs : List (Result UnwindCode Error)) × AreItems s xs }
    ensures items { (s : CodeStream) (xs ys : List (Result UnwindCode Error)) →
        AreItems s xs → AreItems s ys → map answer_of xs ≡ map answer_of ys }
{}

/// Following links has a result, and only one.
#[tactic(auto, using(crate::proofs::OneChain::one_answer, crate::proofs::SomeAnswer::some_answer))]
pub fn one_answer_of_links()
    ensures exists { (t : Table) (u : ℕ) → (a : Result ℕ Refusal) × Follows t u a }
    ensures one { (t : Table) (u : ℕ) (a b : Result ℕ Refusal) →
        Follows t u a → Follows t u b → a ≡ b }
{}

/// An unwind RVA has a record or an error, and only one of them. It is `FunctionCycle` exactly if the links never end,
/// and it is never `Memory`.
pub fn one_record_of_addresses()
    ensures exists { (t : Table) (b : List ℕ) (u : ℕ) →
        (x : Result UnwindInfoView Refusal) × Unwinds t b u x }
    ensures one { (t : Table) (b : List ℕ) (u : ℕ) (x y : Result UnwindInfoView Refusal) →
        Unwinds t b u x → Unwinds t b u y → x ≡ y }
    ensures cycle { (t : Table) (b : List ℕ) (u : ℕ) (x : Result UnwindInfoView Refusal) →
        Unwinds t b u x → ((x ≡ Err FunctionCycle) ↔ IsEndless t u) }
    ensures no_memory { (t : Table) (b : List ℕ) (u : ℕ) → Unwinds t b u (Err Memory) → ⊥ }
{}

/// The codes of an unwind record start four bytes after its start, and its handler's data are the last of the bytes.
pub fn parts_of_records_stand()
    ensures { (b : List ℕ) (p : ℕ) (i : UnwindInfoView) →
        outcome (unwind_tests b p) (unwind_record b p) ≡ Ok i → UnwindPartsStand b p i }
{}

/// Exception data keep the bytes that they were read from, and map RVAs by the file alignment that was passed. Their
/// table lies in these bytes, and an x64 table has one entry for each 12 bytes of its size.
#[tactic(auto, using(crate::proofs::ExceptionBytes::content_of_bytes, crate::proofs::ExceptionBytes::alignment_of_image, crate::proofs::ExceptionBytes::inside_directory, crate::proofs::Searches::length_functions))]
pub fn exception_data_are_of_their_bytes()
    ensures content { (width : ℕ) (b : List ℕ) (d : DataDirectory)
        (sections : List SectionTable) (unit : ℕ) (o : ParseOptions) (v : ExceptionView) →
        exception_at width b d sections unit o ≡ Ok v → v.content ≡ b }
    ensures alignment { (width : ℕ) (b : List ℕ) (d : DataDirectory)
        (sections : List SectionTable) (unit : ℕ) (o : ParseOptions) (v : ExceptionView) →
        exception_at width b d sections unit o ≡ Ok v → v.alignment ≡ unit }
    ensures inside { (width : ℕ) (b : List ℕ) (d : DataDirectory)
        (sections : List SectionTable) (unit : ℕ) (o : ParseOptions) (v : ExceptionView) →
        exception_at width b d sections unit o ≡ Ok v → v.start + v.size ≤ length v.content }
    ensures entries { (b : List ℕ) → length (functions b) ≡ length b / 12 }
{}

/// The opcodes of unwind codes, as winnt.h numbers them.
pub fn opcode_constants()
    ensures push_nonvol { UWOP_PUSH_NONVOL ≡ 0 }
    ensures alloc_large { UWOP_ALLOC_LARGE ≡ 1 }
    ensures alloc_small { UWOP_ALLOC_SMALL ≡ 2 }
    ensures set_fpreg { UWOP_SET_FPREG ≡ 3 }
    ensures save_nonvol { UWOP_SAVE_NONVOL ≡ 4 }
    ensures save_nonvol_far { UWOP_SAVE_NONVOL_FAR ≡ 5 }
    ensures epilog { UWOP_EPILOG ≡ 6 }
    ensures spare_code { UWOP_SPARE_CODE ≡ 7 }
    ensures save_xmm128 { UWOP_SAVE_XMM128 ≡ 8 }
    ensures save_xmm128_far { UWOP_SAVE_XMM128_FAR ≡ 9 }
    ensures push_machframe { UWOP_PUSH_MACHFRAME ≡ 10 }
{}
