//! Laws over the definition of plans.

ghost use Rattle.std.specs.Prelude.{◌≡◌, ◌≢◌, ◌↔◌, ◌<◌, ℕ, length, List, Option, Result, Ok, Err, None, Some};
ghost use Rattle.pe_core.specs.Bytes.{AreBytes};
ghost use Rattle.pe_core.specs.Refusals.{Refusal, Memory, FunctionCycle};
ghost use Rattle.pe_unwind.specs.declared.function_table.RuntimeFunction.{RuntimeFunction};
ghost use Rattle.pe_core.specs.declared.options.ParseOptions.{ParseOptions};
ghost use Rattle.pe_core.specs.declared.section_table.SectionTable.{SectionTable};
ghost use Rattle.pe_unwind.specs.ExceptionTable.{ExceptionView, table_of};
ghost use Rattle.pe_unwind.specs.FunctionTable.{NeverFalls, functions, scan};
ghost use Rattle.pe_unwind.specs.Links.{Table};
ghost use Rattle.pe_unwind.specs.UnwindRecord.{UnwindInfoView};
ghost use Rattle.pe_plan.specs.Plans.{EndsAtRoot, NeverEnds, Plans, PlansFrom};
ghost use Rattle.pe_plan.specs.ShortPlans.{PlansShort, most_records};

/// A plan is not empty. Its last record is chained to none, and each other record is chained to another function.
#[tactic(auto, using(crate::proofs::Roots::plan_ends_at_root, crate::proofs::Roots::found_plan_ends_at_root))]
pub fn plans_end_at_their_root()
    ensures function { (t : Table) (b : List ℕ) (f : RuntimeFunction) (is : List UnwindInfoView) →
        PlansFrom t b f (Ok is) → EndsAtRoot is }
    ensures code { (v : ExceptionView) (sections : List SectionTable) (opts : ParseOptions) (a : ℕ)
        (is : List UnwindInfoView) → Plans v sections opts a (Ok (Some is)) → EndsAtRoot is }
{}

/// In a table sorted by start RVA, an RVA of code has no plan exactly if a linear scan finds no function for it.
#[tactic(auto, using(crate::proofs::Roots::none_scanned))]
pub fn no_plan_without_a_function()
    ensures { (v : ExceptionView) (sections : List SectionTable)
        (opts : ParseOptions) (a : ℕ) (x : Result (Option (List UnwindInfoView)) Refusal) →
        Plans v sections opts a x → NeverFalls (functions (table_of v)) →
        ((x ≡ Ok None) ↔ (scan (functions (table_of v)) a ≡ None)) }
{}

/// Apart from `Memory`, a function has one plan and no other; it is `FunctionCycle` exactly if the chain never ends.
pub fn one_plan_of_functions()
    ensures exists { (t : Table) (b : List ℕ) (f : RuntimeFunction) → AreBytes b →
        (x : Result (List UnwindInfoView) Refusal) × PlansFrom t b f x × (x ≢ Err Memory) }
    ensures one { (t : Table)
        (b : List ℕ) (f : RuntimeFunction) (x y : Result (List UnwindInfoView) Refusal) →
        PlansFrom t b f x → PlansFrom t b f y → x ≢ Err Memory → y ≢ Err Memory → x ≡ y }
    ensures cycle { (t : Table)
        (b : List ℕ) (f : RuntimeFunction) (x : Result (List UnwindInfoView) Refusal) →
        PlansFrom t b f x → ((x ≡ Err FunctionCycle) ↔ NeverEnds t b f) }
{
    pe_unwind::laws::x64::one_record_of_addresses();
}

/// A short plan is the plan of its function, and what refuses it refuses the plan. Where it has too many records, a plan that is
/// there has more than 32.
pub fn short_plans_are_plans()
    ensures records { (t : Table) (b : List ℕ) (f : RuntimeFunction) (is : List UnwindInfoView) →
        PlansShort t b f (Ok (Some is)) → PlansFrom t b f (Ok is) }
    ensures refused { (t : Table) (b : List ℕ) (f : RuntimeFunction) (refusal : Refusal) →
        PlansShort t b f (Err refusal) → PlansFrom t b f (Err refusal) }
    ensures many { (t : Table) (b : List ℕ) (f : RuntimeFunction) (is : List UnwindInfoView) →
        PlansShort t b f (Ok None) → PlansFrom t b f (Ok is) → most_records < length is }
{
    pe_unwind::laws::x64::one_record_of_addresses();
}
