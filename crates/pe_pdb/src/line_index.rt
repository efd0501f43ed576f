//! An index of the lines of a module by their RVAs, as it was made.

ghost use Rattle.std.specs.List.Sorted.{IsNonDecreasingBy};
ghost use Rattle.pe_pdb.specs.LineKeys.{line_key};

use crate::line_entries::LineEntry;

/// The lines of a module by their RVAs, in ascending order.
#[derive(Clone, Copy)]
pub struct LineIndex<'r> {
    pub(crate) entries: &'r [LineEntry],
    ghost ascending: { IsNonDecreasingBy line_key entries.now },
}
