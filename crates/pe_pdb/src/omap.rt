//! OMAP tables: where code is that a tool moved after the link, to have what runs together on the same pages. A stream of them
//! (`DEBUG_OMAP_TO_SOURCE`, `DEBUG_OMAP_FROM_SOURCE`) has rows of 8 bytes in ascending order, `OMAP` of dbghelp.h: from an RVA on, up to
//! that of the next row, code is at another RVA. Symbols of such a PDB count in the section headers that the image had before.
//! <https://learn.microsoft.com/windows/win32/api/dbghelp/ns-dbghelp-omap>

ghost use Rattle.std.specs.Prelude.{◌≡◌, ◌+◌, ◌≤◌, length};
ghost use Rattle.std.specs.List.Sorted.{IsNonDecreasingBy};
ghost use Rattle.pe_pdb.specs.Lookups.{IsCut};
ghost use Rattle.pe_pdb.specs.Omap.{moved_to, omap, omap_row};

use pe_core::read_u32;

/// The size of a row in bytes.
const SIZE_OF_ROW: usize = 8;

/// A row of an OMAP table (`OMAP`).
#[repr(C)]
#[derive(Clone, Copy)]
pub struct OmapRow {
    /// The RVA from which on it counts.
    pub rva: u32,
    /// Where the code at that RVA is; 0 where it is nowhere.
    pub rva_to: u32,
}

impl OmapRow {
    /// The row at an offset in bytes that are known to have one.
    #[tactic(auto, unfolding(crate::specs::Omap::omap_row))]
    fn at(bytes: &[u8], offset: usize) -> OmapRow
        requires { offset + 8 ≤ length bytes.now }
        ensures { result ≡ omap_row bytes.now offset }
    {
        OmapRow {
            rva: read_u32(bytes, offset),
            rva_to: read_u32(bytes, offset + 4),
        }
    }
}

/// How many rows of a table start at or before an RVA, where they ascend.
fn count_up_to(table: &[u8], rva: u32) -> usize
    ensures { IsCut (λ x. x.rva) (omap table.now) rva result result }
{
    let mut low = 0;
    let mut size = table.len() / SIZE_OF_ROW;
    if size == 0 {
        return 0;
    }
    while size > 1 {
        let half = size / 2;
        if OmapRow::at(table, SIZE_OF_ROW * (low + half)).rva <= rva {
            low += half;
            size -= half;
        } else {
            size -= half;
        }
    }
    if OmapRow::at(table, SIZE_OF_ROW * low).rva <= rva {
        low + 1
    } else {
        low
    }
}

/// Where the code at an RVA is by a table, whose bytes are those of its stream: as far from where the last row at or before the RVA leads
/// to as the RVA is from the row. `None` where no row is at or before it, where its code is nowhere, and past 2^32. It is looked up by
/// halves, in as many steps as the number of rows has binary digits. Where rows do not ascend, what is found is left open.
pub fn moved_to(table: &[u8], rva: u32) -> Option<u32>
    ensures { IsNonDecreasingBy (λ x. x.rva) (omap table.now) → result ≡ moved_to (omap table.now) rva }
{
    let after = count_up_to(table, rva);
    if after == 0 {
        return None;
    }
    let row = OmapRow::at(table, SIZE_OF_ROW * (after - 1));
    if row.rva_to == 0 {
        return None;
    }
    row.rva_to.checked_add(rva.saturating_sub(row.rva))
}
