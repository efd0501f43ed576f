//! Why a bound DLL is refused.

ghost use Rattle.std.specs.Prelude.{◌≡◌, Ok};
ghost use Rattle.calls_failures.specs.StepFailures.{bound_numbers, bound_short};
ghost use Rattle.calls_directories.specs.BoundImports.{first_bound};
ghost use Rattle.calls_base.specs.Directories.{step_of};
ghost use Rattle.calls_base.specs.FailureNumbers.{directory_refused, failure_by};

use calls_base::numbers::{
    BOUND_IMPORT_NAME, ErrorNumbers, Failure, SHORT, directory_refused, failure_with, needed_at,
    needed_in, no_numbers, numbers, u16_there,
};
use calls_base::ranges::{Range, bytes_there};
use calls_directories::directories::bound_imports::{BoundNames, next_bound_import};
use pe_core::require_bytes;

/// The size of an entry in bytes, and of one of its forwarders.
const SIZE_OF_ENTRY: usize = 8;

/// Where in an entry the offset of its name is.
const NAME_IN_ENTRY: usize = 4;

/// Where in an entry the number of its forwarders is.
const FORWARDERS_IN_ENTRY: usize = 6;

/// The bytes that are needed of the DLL that a walk is at.
fn bound_short(bytes: &[u8], table: &Range, walk: &Range) -> ErrorNumbers
    ensures { result ≡ bound_short bytes.now table.now walk.now }
{
    let left = bytes_there(bytes, walk);
    let forwarders = usize::from(u16_there(left, FORWARDERS_IN_ENTRY));
    let size = SIZE_OF_ENTRY + SIZE_OF_ENTRY * forwarders;
    match require_bytes(left, 0, size) {
        Ok(()) => needed_at(table.offset, table.length),
        Err(_) => needed_in(bytes, walk, walk.offset, size as u64),
    }
}

/// The numbers of the failure of the DLL that a walk is at.
#[tactic(auto, unfolding(crate::specs::StepFailures::bound_numbers))]
pub fn bound_numbers(bytes: &[u8], table: &Range, walk: &Range, number: u32) -> ErrorNumbers
    ensures { result ≡ bound_numbers bytes.now table.now walk.now number }
{
    match number {
        SHORT => bound_short(bytes, table, walk),
        BOUND_IMPORT_NAME => {
            let name = u16_there(bytes_there(bytes, walk), NAME_IN_ENTRY);
            numbers(u64::from(name), 0, 0)
        }
        _ => no_numbers(),
    }
}

pub fn bound_failure(bytes: &[u8], table: &Range, walk: &Range) -> Option<Failure>
    ensures { result ≡ failure_by (bound_numbers bytes.now table.now walk.now) (directory_refused
        (step_of (λ x. x) (first_bound bytes.now table.now walk.now))) }
{
    let mut after = *walk;
    let found = next_bound_import(&BoundNames::alone(bytes, *table), &mut after);
    match directory_refused(found) {
        Some(number) => Some(failure_with(number, bound_numbers(bytes, table, walk, number))),
        None => None,
    }
}
