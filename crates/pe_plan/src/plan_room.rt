//! The plan of a function in an array of the caller: a chain of few records needs little room.

ghost use Rattle.std.specs.Prelude.{◌≡◌, ◌≤◌, IfOk, IfSome, length, map, take};
ghost use Rattle.std.specs.Option.{option_map};
ghost use Rattle.pe_core.specs.Refusals.{answer_by};
ghost use Rattle.pe_unwind.specs.Links.{links_with};
ghost use Rattle.pe_unwind.specs.UnwindRecord.{unwind_view};
ghost use Rattle.pe_plan.specs.ShortPlans.{PlansUpTo};

use pe_core::{Result, RvaMap};
use pe_unwind::{ExceptionData, RuntimeFunction, UnwindInfo};

/// Reads the plan of a function, as `UnwindPlan::of_function` returns it, into the first entries of an array, if the array has
/// room for it, and returns how many records it has. `None` where as many records as the array has entries are each chained to
/// another. What other entries hold, and what all hold where no number is returned, means nothing. The RVAs are mapped by `rva_map`,
/// as `ExceptionData::section_map` returns it.
///
/// Errors: the first error of one of these records, as `ExceptionData::get_unwind_info_with_map` returns it.
#[tactic(auto, using(crate::proofs::PlanRooms::refused_next, crate::proofs::PlanRooms::full))]
pub fn read_plan<'a, R: RvaMap>(
    exceptions: &ExceptionData<'a>,
    function: RuntimeFunction,
    rva_map: &R,
    room: &mut [UnwindInfo<'a>],
) -> Result<Option<usize>>
    ensures plan { PlansUpTo (length room.old) (links_with exceptions.now (R.offset rva_map.now))
        exceptions.now.content function
        (answer_by (option_map (λ count. map unwind_view (take count room.new))) result) }
    ensures size { length room.new ≡ length room.old }
    ensures fits { IfOk result (λ found. IfSome found (λ count. count ≤ length room.old)) }
{
    let mut next = Some(function);
    for count in 0..room.len() {
        let Some(current) = next else {
            return Ok(Some(count));
        };
        match exceptions.get_unwind_info_with_map(current, rva_map) {
            Ok(record) => {
                next = record.chained_info;
                room[count] = record;
            }
            Err(error) => return Err(error),
        }
    }
    match next {
        None => Ok(Some(room.len())),
        Some(_) => Ok(None),
    }
}
