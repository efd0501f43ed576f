//! The x64 function table: `RUNTIME_FUNCTION` entries of 12 bytes, each the start, end and unwind RVA of a function or
//! a part of one. A caller looks up the entry that covers an RVA. See
//! [x64 exception handling](https://learn.microsoft.com/cpp/build/exception-handling-x64).

ghost use Rattle.std.specs.Prelude.{◌≡◌, ◌+◌, ◌<◌, ◌≤◌, length};
ghost use Rattle.std.proofs.Common.{arith};
ghost use Rattle.pe_core.specs.Refusals.{Returns};
ghost use Rattle.pe_unwind.specs.ExceptionTable.{function_of};
ghost use Rattle.pe_unwind.specs.FunctionTable.{function_at, functions, Finds};
ghost use Rattle.pe_unwind.specs.Lookup.{FindsStart, digits};
ghost use Rattle.pe_unwind.specs.EntriesAfter.{functions_after};

use crate::lookup::{FunctionEntry, last_start};
use pe_core::{CountedTable, Error, Reason, Result, TableEntries, TableEntry, read_u32};

/// The size of an entry in bytes.
pub(crate) const SIZE_OF_FUNCTION: usize = 12;

/// An entry of the x64 function table: the RVAs that a function covers, and the RVA of its unwind record. It is
/// `RUNTIME_FUNCTION` of winnt.h.
#[repr(C)]
#[derive(Clone, Copy, Debug, Default, PartialEq)]
pub struct RuntimeFunction {
    /// The start: RVA of the first byte.
    pub begin_address: u32,
    /// The end: RVA of the byte after the last.
    pub end_address: u32,
    /// The RVA of the unwind record. An odd one is a link: the entry at this RVA minus one has the unwind RVA to use
    /// instead.
    pub unwind_info_address: u32,
}

impl TableEntry for RuntimeFunction {
    ghost SIZE = { 12 };

    ghost entry_at = { function_at };

    const SIZE: usize = SIZE_OF_FUNCTION;

    const ITERATOR: &'static str = "RuntimeFunctionIterator";

    fn at(bytes: &[u8], offset: usize) -> RuntimeFunction {
        RuntimeFunction {
            begin_address: read_u32(bytes, offset),
            end_address: read_u32(bytes, offset + 4),
            unwind_info_address: read_u32(bytes, offset + 8),
        }
    }

    ghost has_bytes = { omega arith };

    ghost reads_after = { functions_after };
}

impl RuntimeFunction {
    /// The entry of a table with this index, which counts entries. Errors: `FunctionIndex` unless the table has more
    /// whole entries than that.
    pub fn of_table(table: &[u8], index: usize) -> Result<RuntimeFunction>
        ensures { Returns result (function_of table.now index) }
    {
        if index < table.len() / SIZE_OF_FUNCTION {
            Ok(RuntimeFunction::at(table, SIZE_OF_FUNCTION * index))
        } else {
            Err(Error::Malformed(Reason::FunctionIndex(index)))
        }
    }
}

/// The entries that are left of an x64 function table, 12 bytes each. A truncated last entry is one item, `Short`.
pub type RuntimeFunctionIterator<'a> = TableEntries<'a, RuntimeFunction>;

impl FunctionEntry for RuntimeFunction {
    ghost start_of = { λ f. f.begin_address };

    fn start(&self) -> u32 {
        self.begin_address
    }
}

/// Returns the entry of `search`, whether it covers the RVA or ends before it: then no entry of a sorted table covers what lies
/// between its end and the RVA.
#[inline(always)]
#[tactic(auto, unfolding(crate::specs::FunctionTable::functions))]
pub fn search_start(table: &mut CountedTable, rva: u32) -> Option<RuntimeFunction>
    ensures found { FindsStart (λ f. f.begin_address) (functions table.old.content) rva result }
    ensures kept { table.new.content ≡ table.old.content }
    ensures counted { table.old.count ≤ table.new.count }
    ensures cost { table.new.count ≤ table.old.count + digits
        (length (functions table.old.content)) }
{
    last_start(table, rva)
}

/// Returns the entry that covers an RVA, by binary search. It reads at most as many entries as their number has binary
/// digits; `table` counts these reads.
///
/// It stops between two neighbouring entries, the first of which starts at or before the RVA and the second after it
/// (either may be missing), and returns the first if the RVA is before its end. A table sorted by start RVA has one such
/// position, so there it returns what a linear scan finds. In any other table which position it is depends on the search.
#[inline(always)]
#[tactic(auto, unfolding(crate::specs::FunctionTable::functions))]
pub fn search(table: &mut CountedTable, rva: u32) -> Option<RuntimeFunction>
    ensures found { Finds (functions table.old.content) rva result }
    ensures kept { table.new.content ≡ table.old.content }
    ensures counted { table.old.count ≤ table.new.count }
    ensures cost { table.new.count ≤ table.old.count + digits
        (length (functions table.old.content)) }
{
    // The search goes by the starts alone; the end is tested once, of the entry to which it came.
    match last_start::<RuntimeFunction>(table, rva) {
        Some(function) if rva < function.end_address => Some(function),
        _ => None,
    }
}
