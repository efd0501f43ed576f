//! An index of modules by the RVAs that they have, as it was made.

ghost use Rattle.pe_core.specs.RangeIndexes.{Indexes};

use crate::contribution::ModuleRange;
use pe_core::RangeEntry;

/// Ranges of RVAs, and their index.
#[derive(Clone, Copy)]
pub struct ModuleIndex<'r> {
    pub(crate) ranges: &'r [ModuleRange],
    pub(crate) entries: &'r [RangeEntry],
    ghost indexed: { Indexes (λ r. r.start) (λ r. r.size) 0 ranges.now entries.now },
}
