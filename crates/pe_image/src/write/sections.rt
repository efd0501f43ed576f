//! Writes sections: for each its data at the raw pointer, its header of 40 bytes in the section table, and zeros after
//! the data up to the file alignment. Layout:
//! <https://learn.microsoft.com/windows/win32/debug/pe-format#section-table-section-headers>.

ghost use Rattle.std.specs.Prelude.{◌≡◌, ◌+◌, ◌*◌, ◌≤◌, [], ◌∷◌, IsTrue, OnOk, length};
ghost use Rattle.pe_core.specs.Bytes.{holds};
ghost use Rattle.pe_core.specs.Refusals.{Returns, WriteAlignment, WriteFit, WriteOverlap, WriteSection, outcome};
ghost use Rattle.pe_image.specs.Overlay.{all_fit, greatest_end, longest};
ghost use Rattle.pe_image.specs.Pieces.{all_section_pieces, header_width, in_a_row, lacking, section_pieces};
ghost use Rattle.pe_image.specs.Writing.{ReturnsWritten, all_in_source, clash_free, is_unit, section_tests, sections_written};
ghost use Rattle.pe_image.specs.WritingSteps.{all_end, covered, next_range, possible, put_in_turn, section_parts};

use crate::write::ends::piece_end;
use crate::write::outside::{set_slice_outside, set_zeros_outside};
use crate::write::overlaps::{first_clash, first_outside, raw_end};
use crate::write::records::set_section;
use pe_core::{Error, Reason, Result, SectionTable, require_room};

/// The size of a section header in bytes.
const SIZE_OF_SECTION_HEADER: usize = 40;

/// How many bytes `n` is short of a multiple of the unit. 0 without a unit.
fn lacking(n: u32, unit: Option<usize>) -> usize
    requires { IsTrue (is_unit unit) }
    ensures { result ≡ lacking n unit }
{
    let Some(unit) = unit else {
        return 0;
    };
    let over = n as usize % unit;
    if over == 0 { 0 } else { unit - over }
}

/// The sections to write.
#[derive(Clone, Copy)]
pub struct SectionWriter<'a> {
    /// The file that the image was read from, which contains the data of the sections.
    pub source: &'a [u8],
    /// The section headers.
    pub sections: &'a [SectionTable],
    /// The alignment in bytes that the data is padded to with zeros. `None` writes no zeros.
    pub unit: Option<usize>,
}

impl<'a> SectionWriter<'a> {
    /// Errors, in this order: `WriteOverlap` if two unequal sections share a byte of the file; `WriteSection` if the
    /// data of one is not in `source`.
    pub(crate) fn require_data(&self) -> Result<()>
        ensures { Returns result (outcome ((clash_free self.now.sections.now, WriteOverlap)
            ∷ (all_in_source self.now.source.now self.now.sections.now, WriteSection) ∷ []) tt) }
    {
        if let Some((first, second)) = first_clash(self.sections) {
            return Err(Error::Malformed(Reason::WriteOverlap(first, second)));
        }
        match first_outside(self.sections, self.source) {
            None => Ok(()),
            Some(index) => Err(Error::Malformed(Reason::WriteSection(index))),
        }
    }

    /// The greatest end of the pieces of the section, whose header is written at `offset`. `WriteFit` if no buffer is so
    /// long.
    #[tactic(auto, using(crate::proofs::Ends::section_reach))]
    fn section_end(&self, offset: usize, section: &SectionTable) -> Result<usize>
        requires unit { IsTrue (is_unit self.now.unit) }
        requires inside { IsTrue (holds
            self.now.source.now section.now.pointer_to_raw_data section.now.size_of_raw_data) }
        ensures end { Returns result (all_end
            (section_pieces self.now.source.now self.now.unit offset section.now)) }
        ensures header { OnOk result (offset + 40 ≤ longest) }
    {
        let padded = piece_end(
            raw_end(section),
            lacking(section.size_of_raw_data, self.unit),
        )?;
        let header = piece_end(offset, SIZE_OF_SECTION_HEADER)?;
        Ok(padded.max(header))
    }

    /// The greatest end of the pieces of the sections, whose headers are written from `start` on, and the offset after
    /// these headers. `WriteFit` if no buffer is so long.
    pub(crate) fn ends(&self, start: usize) -> Result<(usize, usize)>
        requires unit { IsTrue (is_unit self.now.unit) }
        requires inside { IsTrue (all_in_source self.now.source.now self.now.sections.now) }
        ensures { Returns result (possible
            (greatest_end (all_section_pieces
            self.now.source.now self.now.unit start self.now.sections.now)) (
              greatest_end (all_section_pieces
                  self.now.source.now self.now.unit start self.now.sections.now),
              start + 40 * length self.now.sections.now,
            )) }
    {
        let mut end = 0;
        let mut offset = start;
        for i in 0..self.sections.len() {
            end = end.max(self.section_end(offset, &self.sections[i])?);
            offset += SIZE_OF_SECTION_HEADER;
        }
        Ok((end, offset))
    }

    /// The offset after the section headers, which are written from `start` on. `WriteFit` if the pieces of the
    /// sections don't all fit.
    #[tactic(auto, using(crate::proofs::Ends::fit_by_end))]
    fn require(&self, buffer: &[u8], start: usize) -> Result<usize>
        requires unit { IsTrue (is_unit self.now.unit) }
        requires inside { IsTrue (all_in_source self.now.source.now self.now.sections.now) }
        ensures { Returns result (outcome ((
          all_fit (length buffer.now) (all_section_pieces
              self.now.source.now self.now.unit start self.now.sections.now),
          WriteFit,
        ) ∷ [])
            (start + 40 * length self.now.sections.now)) }
    {
        let (end, offset) = self.ends(start)?;
        require_room(buffer, 0, end)?;
        Ok(offset)
    }

    /// The range of the data of the first section in `after` that has some, and of the zeros after them. Empty without
    /// such a section.
    fn next_range(&self, after: &[SectionTable]) -> (usize, usize)
        requires { IsTrue (is_unit self.now.unit) }
        ensures { result ≡ next_range self.now.unit after.now }
    {
        for i in 0..after.len() {
            let section = &after[i];
            if section.size_of_raw_data != 0 {
                let padding = lacking(section.size_of_raw_data, self.unit);
                // The sum never overflows where the sections fit, so saturating changes nothing.
                let end = raw_end(section).saturating_add(padding);
                return (section.pointer_to_raw_data as usize, end);
            }
        }
        (0, 0)
    }

    /// The range that later sections cover, so that nothing of the section is to be written there. A section without data
    /// has nothing to write, so it looks for none.
    fn covered(&self, section: &SectionTable, after: &[SectionTable]) -> (usize, usize)
        requires { IsTrue (is_unit self.now.unit) }
        ensures { result ≡ covered self.now.unit section.now after.now }
    {
        if section.size_of_raw_data == 0 {
            (0, 0)
        } else {
            self.next_range(after)
        }
    }

    /// Writes a section, with its header at `offset`, but for what of its data and zeros lies in the range `covered`. The
    /// caller has checked that it fits.
    #[tactic(auto, using(crate::proofs::WrittenSections::section_fit, crate::proofs::WrittenSections::parts_in_turn), unfolding(crate::specs::Pieces::section_pieces))]
    fn set_section(
        &self,
        buffer: &mut [u8],
        covered: (usize, usize),
        offset: usize,
        section: &SectionTable,
    )
        requires unit { IsTrue (is_unit self.now.unit) }
        requires inside { IsTrue (holds
            self.now.source.now section.now.pointer_to_raw_data section.now.size_of_raw_data) }
        requires fit { IsTrue (all_fit (length buffer.old)
            (section_pieces self.now.source.now self.now.unit offset section.now)) }
        ensures { buffer.new ≡ put_in_turn buffer.old
            (section_parts covered self.now.source.now self.now.unit offset section.now) }
    {
        let start = section.pointer_to_raw_data as usize;
        let end = raw_end(section);
        set_slice_outside(buffer, covered, start, &self.source[start..end]);
        set_section(buffer, offset, section);
        let zeros = lacking(section.size_of_raw_data, self.unit);
        set_zeros_outside(buffer, covered, end, zeros);
    }

    /// Writes the sections, with their headers from `start` on. The caller has checked that they fit. What the next
    /// section with data covers is not written: so of sections that are equal, or rise or fall in the file, no byte is
    /// written twice as data or zeros, however many sections cover it.
    pub(crate) fn set(&self, buffer: &mut [u8], start: usize)
        requires unit { IsTrue (is_unit self.now.unit) }
        requires inside { IsTrue (all_in_source self.now.source.now self.now.sections.now) }
        requires fit { IsTrue (all_fit (length buffer.old)
            (all_section_pieces self.now.source.now self.now.unit start self.now.sections.now)) }
        ensures { buffer.new ≡ put_in_turn buffer.old
            (all_section_pieces self.now.source.now self.now.unit start self.now.sections.now) }
    {
        let mut offset = start;
        for i in 0..self.sections.len() {
            let section = &self.sections[i];
            let covered = self.covered(section, &self.sections[i + 1..]);
            self.set_section(buffer, covered, offset, section);
            offset += SIZE_OF_SECTION_HEADER;
        }
    }

    /// The offset after the section headers, which are written from `start` on. Errors, in this order: `WriteAlignment`
    /// for a unit of 0; `WriteOverlap` if two unequal sections share a byte of the file; `WriteSection` if the data of
    /// one is not in `source`; `WriteFit` if the pieces don't all fit.
    fn require_all(&self, buffer: &[u8], start: usize) -> Result<usize>
        ensures returned { Returns result (outcome ((is_unit self.now.unit, WriteAlignment)
            ∷ section_tests self.now.source.now self.now.sections.now (length buffer.now)
            (all_section_pieces self.now.source.now self.now.unit start self.now.sections.now))
            (start + 40 * length self.now.sections.now)) }
        ensures unit { OnOk result (IsTrue (is_unit self.now.unit)) }
        ensures inside { OnOk result
            (IsTrue (all_in_source self.now.source.now self.now.sections.now)) }
        ensures fit { OnOk result (IsTrue (all_fit (length buffer.now)
            (all_section_pieces self.now.source.now self.now.unit start self.now.sections.now))) }
    {
        if let Some(0) = self.unit {
            return Err(Error::Malformed(Reason::WriteAlignment(0)));
        }
        self.require_data()?;
        self.require(buffer, start)
    }

    /// Writes the sections, with their headers from `start` on, and returns the offset after the headers. Errors: those
    /// of `require_all`; the buffer is then unchanged.
    pub fn write(&self, buffer: &mut [u8], start: usize) -> Result<usize>
        ensures { ReturnsWritten result (sections_written self.now.source.now
            self.now.sections.now self.now.unit start buffer.old) buffer.old buffer.new }
    {
        let end = self.require_all(buffer, start)?;
        self.set(buffer, start);
        Ok(end)
    }
}
