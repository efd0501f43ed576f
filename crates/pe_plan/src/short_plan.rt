//! The plan of a function without memory: an array of records in place of a vector, for callers that do not allocate.

ghost use Rattle.std.specs.Prelude.{◌≡◌, map};
ghost use Rattle.std.specs.Option.{option_map};
ghost use Rattle.pe_core.specs.Refusals.{answer_by};
ghost use Rattle.pe_unwind.specs.Links.{links_with};
ghost use Rattle.pe_unwind.specs.UnwindRecord.{unwind_view};
ghost use Rattle.pe_plan.specs.ShortPlans.{PlansShort, records_of};

use pe_core::{Result, RvaMap};
use pe_unwind::laws::derives::clones_are_their_originals;
use pe_unwind::{ExceptionData, RuntimeFunction, UnwindInfo};
use std::array::repeat;

/// How many records a short plan has at most. Those of a part of a function and of the function are two.
const MOST_RECORDS: usize = 32;

/// The plan of a function that has at most 32 records.
#[derive(Drop)]
pub struct ShortPlan<'a> {
    /// The records, and after them others, which mean nothing.
    records: [UnwindInfo<'a>; MOST_RECORDS],
    /// How many there are.
    count: usize,
}

impl<'a> ShortPlan<'a> {
    /// The plan of a function, as `UnwindPlan::of_function` returns it, if it has at most 32 records. `None` where 32 records
    /// are each chained to another, as in each chain of records that never ends. Nothing is allocated. The RVAs are mapped by
    /// `rva_map`, as `ExceptionData::section_map` returns it.
    ///
    /// Errors: the first error of one of these records, as `ExceptionData::get_unwind_info_with_map` returns it.
    pub fn of_function<R: RvaMap>(
        exceptions: &ExceptionData<'a>,
        function: RuntimeFunction,
        rva_map: &R,
    ) -> Result<Option<ShortPlan<'a>>>
        ensures { PlansShort (links_with exceptions.now (R.offset rva_map.now))
            exceptions.now.content function (answer_by (option_map records_of) result) }
    {
        clones_are_their_originals();
        let first = match exceptions.get_unwind_info_with_map(function, rva_map) {
            Ok(record) => record,
            Err(error) => return Err(error),
        };
        let mut next = first.chained_info;
        // Each place of the array has to hold a record.
        let mut records = repeat(first);
        for count in 1..MOST_RECORDS {
            let Some(parent) = next else {
                return Ok(Some(ShortPlan { records, count }));
            };
            match exceptions.get_unwind_info_with_map(parent, rva_map) {
                Ok(record) => {
                    next = record.chained_info;
                    records[count] = record;
                }
                Err(error) => return Err(error),
            }
        }
        match next {
            None => Ok(Some(ShortPlan {
                records,
                count: MOST_RECORDS,
            })),
            Some(_) => Ok(None),
        }
    }

    /// The records, from the function's own to that of the root.
    #[tactic(auto, using(std::proofs::lemmas::List::take_all))]
    pub fn records(&self) -> &[UnwindInfo<'a>]
        ensures { map unwind_view result.now ≡ records_of self.now }
    {
        if self.count < MOST_RECORDS {
            &self.records[..self.count]
        } else {
            &self.records
        }
    }
}
