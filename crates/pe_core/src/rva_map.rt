//! Any map from RVAs to file offsets, by which directories and records are found. The section map of an image is one
//! ([section headers](https://learn.microsoft.com/windows/win32/debug/pe-format#section-table-section-headers)); a caller may bring
//! another, as one that finds sections by an index of his own.

ghost use Rattle.std.specs.Prelude.{◌≡◌, ℕ, Option};
ghost use Rattle.pe_core.specs.Refusals.{answer_of};
ghost use Rattle.pe_core.specs.SectionMap.{mapped, offset_in};

use crate::error::Result;
use crate::section_index::SectionMap;

/// A map from RVAs to file offsets.
pub trait RvaMap {
    // The file offset of an RVA, if it has one.
    ghost offset: { Self → ℕ → Option ℕ };

    /// The file offset of an RVA. Errors: `Unmapped`.
    fn file_offset(&self, rva: u32) -> Result<usize>
        ensures { answer_of result ≡ mapped (offset self.now rva) };
}

impl<'a> RvaMap for SectionMap<'a> {
    ghost offset = { λ m. offset_in m };

    fn file_offset(&self, rva: u32) -> Result<usize> {
        self.offset_of(rva)
    }
}
