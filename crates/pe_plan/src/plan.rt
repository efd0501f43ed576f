//! The plan of a function: all unwind records that an unwinder needs for one of its frames.
//!
//! A record describes the prolog of one range of code. A compiler may split a function: into its usual path and code that
//! is rarely run, or where a part saves further registers. Each range has an entry in the function table
//! (`RUNTIME_FUNCTION`) and a record of its own. That of a part has `UNW_FLAG_CHAININFO` and, after its codes, the entry to
//! whose record it is chained
//! ([layout](https://learn.microsoft.com/cpp/build/exception-handling-x64#chained-unwind-info-structures)). To leave the
//! part, an unwinder undoes its codes and then those of each record up to the root, which is chained to none.
//!
//! A caller passes an RVA of code to `UnwindPlan::of`, or the entry that lookup found to `UnwindPlan::of_function`, and the
//! records to `step` of pe_frame. Nothing in the format bounds a chain, and a hostile one may come back to a record of its
//! own: that is `FunctionCycle`.

ghost use Rattle.std.specs.Prelude.{◌≡◌, ◌↔◌, map, Err, IsSomeAnd};
ghost use Rattle.std.specs.Option.{option_map};
ghost use Rattle.pe_core.specs.Refusals.{FunctionCycle, answer_by};
ghost use Rattle.pe_unwind.specs.Links.{links_by, links_of};
ghost use Rattle.pe_unwind.specs.UnwindRecord.{unwind_view};
ghost use Rattle.pe_plan.specs.Plans.{NeverEnds, PlansFound, PlansFrom, Plans};

use crate::chain::Records;
use pe_core::{ParseOptions, Result, SectionMap, SectionTable};
use pe_unwind::laws::x64::one_record_of_addresses;
use pe_unwind::{ExceptionData, RuntimeFunction, UnwindInfo};
use std::alloc::Allocator;

/// The plan of a function: its unwind records, from its own to the root of the chain. Its calls return them in this
/// order.
pub struct UnwindPlan;

impl UnwindPlan {
    /// The plan of the function that covers `rva`, as `of_function` returns it. `None` if
    /// `ExceptionData::find_function` finds no function. Errors: those of `of_function`.
    pub fn of<'a, A: Allocator>(
        alloc: A,
        exceptions: &ExceptionData<'a>,
        rva: u32,
        sections: &[SectionTable],
        opts: &ParseOptions,
    ) -> Result<Option<Vec<UnwindInfo<'a>, A>>>
        ensures { Plans exceptions.now sections.now opts.now rva
            (answer_by (option_map (λ records. map unwind_view records.items)) result) }
    {
        let found = exceptions.find_function(rva)?;
        UnwindPlan::of_found(alloc, exceptions, found, sections, opts)
    }

    /// The plan of the function that lookup found, if it found one. Errors: those of `of_function`.
    fn of_found<'a, A: Allocator>(
        alloc: A,
        exceptions: &ExceptionData<'a>,
        found: Option<RuntimeFunction>,
        sections: &[SectionTable],
        opts: &ParseOptions,
    ) -> Result<Option<Vec<UnwindInfo<'a>, A>>>
        ensures plan { PlansFound
            (links_of exceptions.now sections.now opts.now) exceptions.now.content found
            (answer_by (option_map (λ records. map unwind_view records.items)) result) }
        ensures cycle { (answer_by
            (option_map (λ records. map unwind_view records.items)) result ≡ Err FunctionCycle) ↔ IsSomeAnd
            found (NeverEnds (links_of exceptions.now sections.now opts.now) exceptions.now.content) }
    {
        let Some(function) = found else {
            return Ok(None);
        };
        let records = UnwindPlan::of_function(alloc, exceptions, function, sections, opts)?;
        Ok(Some(records))
    }

    /// The plan of a function: its own record, then that of the function to which this one is chained, and so on up to
    /// the root, which is chained to none. Errors:
    /// - `FunctionCycle`: exactly if the chain never ends, in records or in the links of one of its functions;
    /// - otherwise the first error of a record, as `ExceptionData::get_unwind_info_with_opts` returns it;
    /// - `Memory`: the records are allocated once, and only if the chain ends.
    pub fn of_function<'a, A: Allocator>(
        alloc: A,
        exceptions: &ExceptionData<'a>,
        function: RuntimeFunction,
        sections: &[SectionTable],
        opts: &ParseOptions,
    ) -> Result<Vec<UnwindInfo<'a>, A>>
        ensures plan { PlansFrom
            (links_of exceptions.now sections.now opts.now) exceptions.now.content function
            (answer_by (λ records. map unwind_view records.items) result) }
        ensures cycle { (answer_by
            (λ records. map unwind_view records.items) result ≡ Err FunctionCycle) ↔ NeverEnds
            (links_of exceptions.now sections.now opts.now) exceptions.now.content function }
    {
        let sections = exceptions.section_map(sections, opts);
        UnwindPlan::of_function_with_map(alloc, exceptions, function, &sections)
    }

    /// The plan of a function, as `of_function` returns it, by a section map. With an index (`SectionIndex`) each
    /// record takes few steps, however many sections there are.
    pub fn of_function_with_map<'a, A: Allocator>(
        alloc: A,
        exceptions: &ExceptionData<'a>,
        function: RuntimeFunction,
        sections: &SectionMap<'_>,
    ) -> Result<Vec<UnwindInfo<'a>, A>>
        ensures plan { PlansFrom (links_by exceptions.now sections.now) exceptions.now.content
            function (answer_by (λ records. map unwind_view records.items) result) }
        ensures cycle { (answer_by
            (λ records. map unwind_view records.items) result ≡ Err FunctionCycle)
            ↔ NeverEnds (links_by exceptions.now sections.now) exceptions.now.content function }
    {
        one_record_of_addresses();
        let chain = Records {
            exceptions,
            sections,
        };
        let count = chain.count(function)?;
        chain.take(alloc, function, count)
    }
}
