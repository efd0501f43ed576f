//! An index of symbols by their RVAs, as it was made.

ghost use Rattle.std.specs.List.Sorted.{IsNonDecreasing};

/// Symbols by their RVAs, in ascending order.
#[derive(Clone, Copy)]
pub struct SymbolIndex<'r> {
    pub(crate) addresses: &'r [u64],
    ghost ascending: { IsNonDecreasing addresses.now },
}
