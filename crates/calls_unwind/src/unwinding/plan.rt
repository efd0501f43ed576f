//! The plan of a function: its unwind record and those of the functions to which it is chained, up to the root, one a
//! step. A stack walk undoes the codes of each. A plan takes no memory: it finds a loop by an unwind RVA that it saves
//! on the way.
//! https://learn.microsoft.com/cpp/build/exception-handling-x64

ghost use Rattle.std.specs.Prelude.{◌≡◌};
ghost use Rattle.pe_core.specs.Refusals.{answer_of};
ghost use Rattle.calls_unwind.specs.Plans.{goes_on, returned_record, after_record, StepsPlan};
ghost use Rattle.calls_unwind.specs.Unwinding.{links_at};

use crate::unwinding::{UnwindRecord, read_record};
use calls_base::kept_sections::KeptSections;
use calls_base::ranges::Range;
use pe_core::{Error, Reason, Result, RvaMap};

/// The records that are left from a function to the root of its chain. `pe_c_plan_from` of `pe.h` starts it.
#[repr(C)]
#[derive(Clone, Copy)]
pub struct Plan {
    /// Unwind RVA of the next record.
    pub unwind: u32,
    /// Not 0 after the root or an error.
    pub is_over: u32,
    /// An unwind RVA on the way: where it comes again the chain never ends.
    pub saved: u32,
    /// 0.
    pub spare: u32,
    /// How many records were returned since `saved` was set.
    pub steps: u64,
    /// After how many records another RVA is saved.
    pub limit: u64,
}

/// A walk over the records of a plan, and the sections that it keeps.
#[repr(C)]
#[derive(Clone, Copy)]
pub struct PlanWalk {
    /// The records that are left.
    pub plan: Plan,
    /// The sections of its last RVAs. A caller who keeps them for the plan of another function spares its first search.
    pub kept: KeptSections,
}

/// The plan that continues at an unwind RVA. After `limit` records it saves the RVA and doubles the limit, so that the
/// limit reaches the length of any loop.
fn goes_on(plan: Plan, address: u32) -> Plan
    ensures { result ≡ goes_on plan address }
{
    if plan.limit.saturating_sub(1) <= plan.steps {
        Plan {
            unwind: address,
            saved: address,
            steps: 0,
            limit: plan.limit.saturating_mul(2),
            ..plan
        }
    } else {
        Plan {
            unwind: address,
            steps: plan.steps + 1,
            ..plan
        }
    }
}

/// Returns the next record of a plan, and moves the plan. A record that continues at the saved RVA is part of a loop.
fn advance(plan: &mut Plan, next: UnwindRecord) -> Result<Option<UnwindRecord>>
    ensures returned { answer_of result ≡ returned_record plan.old next }
    ensures leaves { plan.new ≡ after_record plan.old next }
{
    let address = next.chained.unwind_info_address;
    if next.is_chained == 0 {
        plan.is_over = 1;
        Ok(Some(next))
    } else if address == plan.saved {
        plan.is_over = 1;
        // Callers get the error's number alone, so the count of steps is left at 0.
        Err(Error::Malformed(Reason::FunctionCycle(0)))
    } else {
        *plan = goes_on(*plan, address);
        Ok(Some(next))
    }
}

pub fn next_record<M: RvaMap>(
    bytes: &[u8],
    table: &Range,
    map: &M,
    plan: &mut Plan,
) -> Result<Option<UnwindRecord>>
    ensures { StepsPlan bytes.now (links_at (M.offset map.now) bytes.now table.now) plan.old
        (answer_of result) plan.new }
{
    if plan.is_over != 0 {
        return Ok(None);
    }
    match read_record(bytes, table, map, plan.unwind) {
        Ok(record) => advance(plan, record),
        Err(error) => {
            plan.is_over = 1;
            Err(error)
        }
    }
}
