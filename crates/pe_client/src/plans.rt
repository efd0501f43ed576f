//! The plan of a function: its end, and that a cycle has none.

ghost use Rattle.std.specs.Prelude.{◌≡◌, ◌↔◌, IfOk, IfSome, IsTrue, None, map};
ghost use Rattle.pe_unwind.specs.Links.{links_of};
ghost use Rattle.pe_unwind.specs.UnwindRecord.{unwind_view};
ghost use Rattle.pe_plan.specs.Plans.{EndsAtRoot, NeverEnds};

use pe_image::{
    Error, ExceptionData, ParseOptions, Reason, Result, RuntimeFunction, SectionTable, UnwindInfo,
};
use pe_plan::UnwindPlan;
use std::alloc::Global;

/// The last record of a plan.
fn last_record(records: Vec<UnwindInfo<'_>>) -> Option<UnwindInfo<'_>>
    requires { EndsAtRoot (map unwind_view records.items) }
    ensures { IfSome result (λ i. i.chained_info ≡ None) }
{
    let mut records = records;
    records.pop()
}

/// The last record of the plan at an RVA: it is chained to none.
pub fn root_record<'a>(
    alloc: Global,
    exceptions: &ExceptionData<'a>,
    rva: u32,
    sections: &[SectionTable],
    opts: &ParseOptions,
) -> Result<Option<UnwindInfo<'a>>>
    ensures { IfOk result (λ r. IfSome r (λ i. i.chained_info ≡ None)) }
{
    pe_plan::laws::plans_end_at_their_root();
    let Some(records) = UnwindPlan::of(alloc, exceptions, rva, sections, opts)? else {
        return Ok(None);
    };
    Ok(last_record(records))
}

/// Whether the chain of a function's records goes on for ever, in records or in links: its plan is refused as a cycle
/// exactly then. Where the plan is refused otherwise, so is this.
pub fn is_endless(
    alloc: Global,
    exceptions: &ExceptionData<'_>,
    function: RuntimeFunction,
    sections: &[SectionTable],
    opts: &ParseOptions,
) -> Result<bool>
    ensures { IfOk result (λ t. IsTrue t ↔ NeverEnds
        (links_of exceptions.now sections.now opts.now) exceptions.now.content function) }
{
    match UnwindPlan::of_function(alloc, exceptions, function, sections, opts) {
        Ok(_) => return Ok(false),
        Err(Error::Malformed(Reason::FunctionCycle(_))) => return Ok(true),
        Err(error) => return Err(error),
    }
}
