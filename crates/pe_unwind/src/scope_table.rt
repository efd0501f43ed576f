//! The scope table, the data of the exception handler for C (`__C_specific_handler`): which ranges of code are
//! guarded, and by which filter or handler. A caller gets it by `UnwindInfo::c_scope_table_entries`.

ghost use Rattle.std.proofs.Common.{arith};
ghost use Rattle.pe_core.specs.Bytes.{record_at};
ghost use Rattle.pe_core.specs.Refusals.{Returns};
ghost use Rattle.pe_unwind.specs.EntriesAfter.{scopes_after};
ghost use Rattle.pe_unwind.specs.ScopeTable.{scope_at};

use pe_core::{Result, TableEntry, WholeEntries, read_u32, require_bytes};

/// The size of an entry in bytes.
pub(crate) const SIZE_OF_SCOPE: usize = 16;

/// An entry of a scope table: a guarded range of code, and what guards it. All fields are RVAs.
#[repr(C)]
#[derive(Clone, Copy, Debug, Default, PartialEq, Eq, Hash)]
pub struct ScopeTableEntry {
    /// The start: RVA of the first guarded byte.
    pub begin: u32,
    /// The end: RVA of the byte after the last guarded one.
    pub end: u32,
    /// The RVA of the filter or handler.
    pub handler: u32,
    /// The RVA where execution continues after the handler.
    pub target: u32,
}

impl TableEntry for ScopeTableEntry {
    ghost SIZE = { 16 };

    ghost entry_at = { scope_at };

    const SIZE: usize = SIZE_OF_SCOPE;

    const ITERATOR: &'static str = "ScopeTableIterator";

    fn at(bytes: &[u8], offset: usize) -> ScopeTableEntry {
        ScopeTableEntry {
            begin: read_u32(bytes, offset),
            end: read_u32(bytes, offset + 4),
            handler: read_u32(bytes, offset + 8),
            target: read_u32(bytes, offset + 12),
        }
    }

    ghost has_bytes = { omega arith };

    ghost reads_after = { scopes_after };
}

impl ScopeTableEntry {
    /// The entry of 16 bytes at an offset in the bytes. Errors: `Short` if it is truncated.
    pub fn parse(bytes: &[u8], offset: usize) -> Result<ScopeTableEntry>
        ensures { Returns result (record_at bytes.now offset 16 (scope_at bytes.now offset)) }
    {
        require_bytes(bytes, offset, SIZE_OF_SCOPE)?;
        Ok(ScopeTableEntry::at(bytes, offset))
    }
}

/// The whole entries that are left of a scope table, 16 bytes each. A truncated last entry is left out.
pub type ScopeTableIterator<'a> = WholeEntries<'a, ScopeTableEntry>;
