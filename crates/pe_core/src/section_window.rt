//! The RVAs around the last one that was mapped. The RVAs of one table mostly lie in one section, side by side, so most of
//! them need no search.

ghost use Rattle.std.specs.Prelude.{◌≡◌, IsNone, IfSome};
ghost use Rattle.pe_core.specs.RangeIndexes.{Rises, number_at};
ghost use Rattle.pe_core.specs.SectionWindow.{IsPieceOf};

use crate::range_index::RangeEntry;

/// The RVAs from `start` up to `end`, all of which one section covers.
#[derive(Clone, Copy)]
pub(crate) struct Window {
    /// The first RVA.
    pub(crate) start: u64,
    /// The RVA after the last.
    pub(crate) end: u64,
    /// The RVA of the section that covers them.
    pub(crate) address: u32,
    /// The file offset of the section's data as mapped.
    pub(crate) offset: u32,
}

/// The entry of an index that has an RVA, and the RVA of the entry after it. `None` if no section covers the RVA.
pub(crate) fn piece_of(entries: &[RangeEntry], rva: u32) -> Option<(RangeEntry, u64)>
    requires { Rises entries.now }
    ensures found { IfSome result (λ x. IsPieceOf entries.now rva x.0 x.1) }
    ensures none { IsNone result → number_at entries.now rva ≡ 0 }
{
    let after = entries.partition_point(|entry| entry.start <= u64::from(rva));
    if after == 0 {
        return None;
    }
    let entry = entries[after - 1];
    if entry.number == 0 {
        return None;
    }
    if after < entries.len() {
        Some((entry, entries[after].start))
    } else {
        Some((entry, u64::MAX))
    }
}
