//! Links between the entries of an x64 function table. An odd unwind RVA is a link: the entry at that RVA minus one
//! has the unwind RVA to follow instead. A caller follows the links to the even RVA at their end, which is that of the
//! unwind record.

ghost use Rattle.std.specs.Prelude.{◌≡◌, ◌%◌};
ghost use Rattle.pe_core.specs.Refusals.{answer_of};
ghost use Rattle.pe_unwind.specs.LinkSteps.{LinkLeads};
ghost use Rattle.pe_unwind.specs.Links.{Follows, linked_table};
ghost use Rattle.pe_unwind.specs.Unwinding.{FindsRecord};

use crate::function_table::{RuntimeFunction, SIZE_OF_FUNCTION};
use pe_core::{Error, Reason, Result, RvaMap, TableEntry};

/// The unwind RVA of the entry to which an odd RVA is a link. Errors: `Unmapped`; `FunctionLink` if no whole entry starts there.
fn follow<M: RvaMap>(table: &[u8], start: usize, map: &M, address: u32) -> Result<u32>
    requires { address % 2 ≡ 1 }
    ensures { LinkLeads (linked_table table.now start (M.offset map.now)) address
        (answer_of result) }
{
    let offset = map.file_offset(address - 1)?;
    // The start is tested first, so that no difference below is negative.
    if offset < start
        || (offset - start) % SIZE_OF_FUNCTION != 0
        || table.len() / SIZE_OF_FUNCTION <= (offset - start) / SIZE_OF_FUNCTION
    {
        return Err(Error::Malformed(Reason::FunctionLink(address)));
    }
    Ok(RuntimeFunction::at(table, offset - start).unwind_info_address)
}

/// The even RVA at the end of the links from `address`. This is Brent's algorithm: one RVA is saved after 1, 2, 4, 8 and so on
/// links, so a loop is found after about as many links as it has, plus those before it. Errors: those of `follow`, and
/// `FunctionCycle` with the number of links that were followed.
#[inline(always)]
fn end_of<M: RvaMap>(table: &[u8], start: usize, map: &M, address: u32) -> Result<u32>
    ensures { Follows (linked_table table.now start (M.offset map.now)) address (answer_of result) }
{
    let mut current = address;
    let mut saved = address;
    let mut power: usize = 1;
    let entries = table.len() / SIZE_OF_FUNCTION;
    for links in 0..entries + 1 {
        if current % 2 == 0 {
            return Ok(current);
        }
        current = follow(table, start, map, current)?;
        if current == saved {
            return Err(Error::Malformed(Reason::FunctionCycle(links + 1)));
        }
        if links + 1 == power {
            saved = current;
            power = power.saturating_mul(2);
        }
    }
    Err(Error::Malformed(Reason::FunctionCycle(entries + 1)))
}

/// The file offset of the record of an unwind RVA, as `ExceptionData::record_offset` finds it, by any map. `table` has the bytes of
/// the function table, and `start` is its file offset. Errors: those of that call.
#[inline(always)]
pub fn linked_record_offset<M: RvaMap>(
    table: &[u8],
    start: usize,
    map: &M,
    address: u32,
) -> Result<usize>
    ensures { FindsRecord (linked_table table.now start (M.offset map.now)) address
        (answer_of result) }
{
    let last = end_of(table, start, map, address)?;
    map.file_offset(last)
}
