//! Chains of unwind records ([layout](https://learn.microsoft.com/cpp/build/exception-handling-x64)): a record with
//! `UNW_FLAG_CHAININFO` names the function whose record follows it in the chain. A chain is walked twice, first to
//! count its records and then to take them.

ghost use Rattle.std.specs.Prelude.{◌≡◌, ◌<◌, ◌^◌, map};
ghost use Rattle.pe_core.specs.Refusals.{answer_of, answer_by};
ghost use Rattle.pe_unwind.specs.Links.{links_by};
ghost use Rattle.pe_unwind.specs.UnwindRecord.{unwind_view};
ghost use Rattle.pe_unwind.specs.Unwinding.{Unwinds};
ghost use Rattle.pe_plan.specs.PlanSteps.{HasLength, Counts, Takes};

use pe_core::{Error, Reason, Result, SectionMap};
use pe_unwind::laws::x64::one_record_of_addresses;
use pe_unwind::{ExceptionData, RuntimeFunction, UnwindInfo};
use std::alloc::Allocator;

/// The number of unwind RVAs: a chain of more records is a loop.
const ADDRESSES: usize = 0x1_0000_0000;

/// The unwind RVA of a function, which is below `ADDRESSES`.
fn address_of(function: RuntimeFunction) -> u32
    ensures value { result ≡ function.unwind_info_address }
    ensures small { function.unwind_info_address < 2 ^ 32 }
{
    function.unwind_info_address
}

/// What reads the record of a function.
#[derive(Clone, Copy)]
pub(crate) struct Records<'a, 'b> {
    /// The exception data, which has the function table and the records.
    pub exceptions: &'b ExceptionData<'a>,
    /// The section map of their image.
    pub sections: &'b SectionMap<'b>,
}

impl<'a, 'b> Records<'a, 'b> {
    /// The record of a function.
    fn record(&self, function: RuntimeFunction) -> Result<UnwindInfo<'a>>
        ensures { Unwinds
            (links_by self.now.exceptions.now self.now.sections.now) self.now.exceptions.now.content
            function.unwind_info_address (answer_by unwind_view result) }
    {
        self.exceptions
            .get_unwind_info_with_map(function, self.sections)
    }

    /// The number of records in the chain of a function, up to its root. Errors: `FunctionCycle` if the chain never
    /// ends, otherwise the first error of a record.
    ///
    /// One unwind RVA is saved after 1, 2, 4, 8 and so on records (Brent's cycle detection), so a loop is found after
    /// about as many records as it has, and those before it. Nothing is allocated.
    pub fn count(&self, function: RuntimeFunction) -> Result<usize>
        ensures { Counts (links_by self.now.exceptions.now self.now.sections.now)
            self.now.exceptions.now.content function (answer_of result) }
    {
        one_record_of_addresses();
        let mut current = function;
        let mut saved = function.unwind_info_address;
        let mut power: usize = 1;
        for chained in 0..ADDRESSES {
            let Some(next) = self.record(current)?.chained_info else {
                return Ok(chained + 1);
            };
            let address = address_of(next);
            // The saved RVA has come again, and equal RVAs have equal records: the chain never ends.
            if address == saved {
                return Err(Error::Malformed(Reason::FunctionCycle(chained + 1)));
            }
            if chained + 1 == power {
                saved = address;
                power *= 2;
            }
            current = next;
        }
        Err(Error::Malformed(Reason::FunctionCycle(ADDRESSES)))
    }

    /// The records of the chain of a function, which has `count` of them. Error: `Memory`; the records are allocated
    /// once.
    pub fn take<A: Allocator>(
        &self,
        alloc: A,
        function: RuntimeFunction,
        count: usize,
    ) -> Result<Vec<UnwindInfo<'a>, A>>
        requires { HasLength (links_by self.now.exceptions.now self.now.sections.now)
            self.now.exceptions.now.content function count }
        ensures { Takes
            (links_by self.now.exceptions.now self.now.sections.now) self.now.exceptions.now.content
            function (answer_by (λ records. map unwind_view records.items) result) }
    {
        one_record_of_addresses();
        let mut records = Vec::with_capacity(alloc, count)?;
        let mut current = function;
        for _ in 0..count {
            let record = self.record(current)?;
            if let Some(next) = record.chained_info {
                current = next;
            }
            records.push(record)?;
        }
        Ok(records)
    }
}
