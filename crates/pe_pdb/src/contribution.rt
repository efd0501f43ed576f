//! [Section contributions](https://llvm.org/docs/PDB/DbiStream.html#section-contribution-substream), a part of the DBI stream:
//! which module has which code, and data. A number of 4 bytes says which version they are, of 28 or of 32 bytes each.
//!
//! `put_ranges` writes the RVAs of each into a room. Of these `ModuleIndex` is made, which finds the module of an RVA.

ghost use Rattle.std.specs.Prelude.{◌≡◌, ◌+◌, ◌≤◌, length};
ghost use Rattle.pe_pdb.specs.Contributions.{PutsRanges, contribution_of, contribution_row, contributions_in, contributions_of, contributions_view, count_of, module_range, width};
ghost use Rattle.pe_pdb.specs.Refusals.{PdbReturns};

use crate::error::{PdbError, Result, require_bytes};
use crate::sections::SectionHeaders;
use pe_core::{read_u16, read_u32};

/// The version of contributions of 28 bytes.
const VERSION: u32 = 0xF12E_BA2D;

/// That of contributions of 32 bytes.
const VERSION_2: u32 = 0xF131_51E4;

/// A piece of a section that is of one module.
#[repr(C)]
#[derive(Clone, Copy, Debug, PartialEq)]
pub struct Contribution {
    /// The number of the section, from 1 on.
    pub section: u16,
    /// Where it starts in the section.
    pub offset: u32,
    /// Its size in bytes.
    pub size: u32,
    /// Flags of the section in the object, `IMAGE_SCN_*` of winnt.h.
    pub characteristics: u32,
    /// The index of the module, in the order of `Modules`.
    pub module_index: u16,
    /// The CRC-32 of its bytes, or 0.
    pub data_checksum: u32,
    /// That of its relocations, or 0.
    pub relocations_checksum: u32,
}

/// A range of RVAs that is of one module.
#[repr(C)]
#[derive(Clone, Copy, Default)]
pub struct ModuleRange {
    /// The first RVA.
    pub start: u32,
    /// How many there are. 0 of a contribution in no section.
    pub size: u32,
    /// The index of the module, in the order of `Modules`.
    pub module_index: u32,
}

/// The section contributions of a PDB.
#[derive(Clone, Copy)]
pub struct SectionContributions<'a> {
    wide: bool,
    rows: &'a [u8],
}

/// The size of a contribution in bytes.
fn width(wide: bool) -> usize
    ensures { result ≡ width wide }
{
    if wide { 32 } else { 28 }
}

impl<'a> SectionContributions<'a> {
    /// Those of one version.
    fn of(wide: bool, rows: &'a [u8]) -> Result<SectionContributions<'a>>
        ensures { PdbReturns contributions_view result (contributions_in wide rows.entry.now) }
    {
        if rows.len() % width(wide) != 0 {
            return Err(PdbError::ContributionsSize(rows.len()));
        }
        Ok(SectionContributions { wide, rows })
    }

    /// Those of `Dbi::contributions`. There are none where these are no bytes. Errors, in order: `Short` if there are fewer than
    /// four; `ContributionsVersion`; `ContributionsSize` if what follows is not a multiple of the size of one.
    #[tactic(auto, unfolding(crate::specs::Contributions::contributions_of))]
    pub fn parse(bytes: &'a [u8]) -> Result<SectionContributions<'a>>
        ensures { PdbReturns contributions_view result (contributions_of bytes.entry.now) }
    {
        if bytes.is_empty() {
            return SectionContributions::of(false, &[]);
        }
        require_bytes(bytes, 0, 4)?;
        let version = read_u32(bytes, 0);
        if version != VERSION && version != VERSION_2 {
            return Err(PdbError::ContributionsVersion(version));
        }
        SectionContributions::of(version == VERSION_2, bytes.split_at(4).1)
    }

    /// How many there are.
    pub fn len(&self) -> usize
        ensures { result ≡ count_of (contributions_view self.now) }
    {
        self.rows.len() / width(self.wide)
    }

    /// The contribution at an offset, whose 28 bytes are known to be there.
    #[tactic(auto, unfolding(crate::specs::Contributions::contribution_row))]
    fn row(&self, offset: usize) -> Contribution
        requires { offset + 28 ≤ length self.now.rows.now }
        ensures { result ≡ contribution_row self.now.rows.now offset }
    {
        Contribution {
            section: read_u16(self.rows, offset),
            offset: read_u32(self.rows, offset + 4),
            size: read_u32(self.rows, offset + 8),
            characteristics: read_u32(self.rows, offset + 12),
            module_index: read_u16(self.rows, offset + 16),
            data_checksum: read_u32(self.rows, offset + 20),
            relocations_checksum: read_u32(self.rows, offset + 24),
        }
    }

    /// The contribution with an index. `None` past the last.
    #[tactic(auto, using(crate::proofs::ModuleRanges::row_inside))]
    pub fn get(&self, index: usize) -> Option<Contribution>
        ensures { result ≡ contribution_of (contributions_view self.now) index }
    {
        if index >= self.len() {
            return None;
        }
        Some(self.row(width(self.wide) * index))
    }

    /// Writes the RVAs of each into the first entries of a room, in their order, and returns how many there are. `Err` of that
    /// number where the room has fewer; then nothing changes.
    #[tactic(auto, using(crate::proofs::ModuleRanges::row_inside))]
    pub fn put_ranges(
        &self,
        sections: &SectionHeaders<'_>,
        room: &mut [ModuleRange],
    ) -> std::result::Result<usize, usize>
        ensures { PutsRanges sections.now.bytes.now (contributions_view self.now) room.old room.new result }
    {
        let count = self.len();
        if room.len() < count {
            return Err(count);
        }
        let (ranges, _) = room.split_at_mut(count);
        for index in 0..ranges.len() {
            ranges[index] = module_range(sections, &self.row(width(self.wide) * index));
        }
        Ok(count)
    }
}

/// The RVAs of a contribution.
fn module_range(sections: &SectionHeaders<'_>, contribution: &Contribution) -> ModuleRange
    ensures { result ≡ module_range sections.now.bytes.now contribution.now }
{
    match sections.rva_of(contribution.section, contribution.offset) {
        Some(start) => ModuleRange {
            start,
            size: contribution.size,
            module_index: u32::from(contribution.module_index),
        },
        None => ModuleRange {
            start: 0,
            size: 0,
            module_index: u32::from(contribution.module_index),
        },
    }
}
