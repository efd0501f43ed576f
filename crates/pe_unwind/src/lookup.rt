//! Lookup of an RVA in a table of entries that each start at one, by binary search: the entry that starts last at or
//! before the RVA. Whether its function covers the RVA is the caller's test, since x64 entries have an end and ARM64 ones
//! a length. Tables are sorted by start RVA in a valid image
//! ([x64](https://learn.microsoft.com/cpp/build/exception-handling-x64),
//! [ARM64](https://learn.microsoft.com/cpp/build/arm64-exception-handling)); these may be any.

ghost use Rattle.std.specs.Prelude.{◌≡◌, ℕ, ◌+◌, ◌≤◌, length};
ghost use Rattle.pe_core.specs.CountedTable.{after_read};
ghost use Rattle.pe_core.specs.Rows.{whole_entries};
ghost use Rattle.pe_unwind.specs.Lookup.{FindsStart, digits};

use pe_core::{CountedTable, TableEntry};

/// An entry of a function table.
pub(crate) trait FunctionEntry: TableEntry + Copy {
    ghost start_of: { Self → ℕ };

    /// The start: RVA of the first byte.
    fn start(&self) -> u32
        ensures { result ≡ start_of self.now };
}

/// Reads the entry at an offset in the table where one is known to be. It counts as one read.
fn next_entry<E: FunctionEntry>(table: &mut CountedTable, offset: usize) -> E
    requires { offset + E.SIZE ≤ length table.old.content }
    ensures value { result ≡ E.entry_at table.old.content offset }
    ensures counts { table.new ≡ after_read table.old }
{
    table.entry_at(offset).unwrap()
}

/// The entry before the position at which a binary search by start RVA stops: it starts at or before the RVA, and the
/// entry after it starts after the RVA. `None` if the search stops before the first entry. It reads at most as many
/// entries as their number has binary digits; `table` counts these reads.
///
/// A table sorted by start RVA has one such position. In any other table which position it is depends on the search.
// Inlined with its callers: in one that drops the table no read is counted.
#[inline(always)]
pub(crate) fn last_start<E: FunctionEntry>(table: &mut CountedTable, rva: u32) -> Option<E>
    ensures found { FindsStart E.start_of
        (whole_entries E.entry_at E.SIZE table.old.content) rva result }
    ensures kept { table.new.content ≡ table.old.content }
    ensures counted { table.old.count ≤ table.new.count }
    ensures cost { table.new.count ≤ table.old.count + digits
        (length (whole_entries E.entry_at E.SIZE table.old.content)) }
{
    let mut low = 0;
    let mut high = table.len() / E::SIZE;
    let mut found = None;
    while low < high {
        let middle = low + (high - low) / 2;
        let entry: E = next_entry(table, E::SIZE * middle);
        if entry.start() <= rva {
            low = middle + 1;
            found = Some(entry);
        } else {
            high = middle;
        }
    }
    found
}
