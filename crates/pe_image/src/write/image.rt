//! Writes an image from its parts: the file, headers, sections, certificates. So a caller that has these and no `PE` writes an
//! image without memory. Layout: <https://learn.microsoft.com/windows/win32/debug/pe-format>.
//!
//! Each writer first tests for all errors in their order, and then writes without further tests. So a write that fails
//! leaves the buffer as it was.

ghost use Rattle.std.specs.Prelude.{◌≡◌, [], ◌∷◌, IsTrue, OnOk, Some, length, max};
ghost use Rattle.pe_core.specs.Header.{header_view, optional_header_view};
ghost use Rattle.pe_core.specs.Refusals.{Returns, WriteFit, outcome};
ghost use Rattle.pe_core.specs.Sections.{sections_offset};
ghost use Rattle.pe_image.specs.CertificateLists.{certificate_views};
ghost use Rattle.pe_image.specs.Overlay.{all_fit, greatest_end};
ghost use Rattle.pe_image.specs.Pieces.{all_section_pieces};
ghost use Rattle.pe_image.specs.WritingSteps.{all_end, field_tests, own_end, own_pieces, own_tests, own_whole, possible, put_in_turn};
ghost use Rattle.pe_image.specs.Writing.{ReturnsWritten, all_in_source, certificates_by, image_by, image_length_by, is_unit, section_tests, whole_by, whole_length_by};

use crate::write::certificate_list::CertificateList;
use crate::write::certificates::{certificates_end, set_table, write_table};
use crate::write::headers::{headers_end, set_headers};
use crate::write::overlaps::last_raw_end;
use crate::write::sections::SectionWriter;
use pe_core::{
    Error, Header, OptionalHeader, Reason, Result, SectionTable, require_room, set_slice,
};

/// The parts of an image to write.
#[derive(Clone, Copy)]
pub struct ImageWriter<'a> {
    /// The file that the image was read from, which contains the data of the sections.
    pub source: &'a [u8],
    /// The headers before the section table.
    pub header: &'a Header<'a>,
    /// The section headers.
    pub sections: &'a [SectionTable],
    /// The certificates, which are written from the offset of their directory in `header` on.
    pub certificates: CertificateList<'a>,
}

impl<'a> ImageWriter<'a> {
    /// The writer of the sections, padded with zeros to a multiple of the unit, if there is one.
    fn section_writer(&self, unit: Option<usize>) -> SectionWriter<'_>
        ensures source { result.source.now ≡ self.now.source.now }
        ensures sections { result.sections.now ≡ self.now.sections.now }
        ensures unit { result.unit ≡ unit }
    {
        SectionWriter {
            source: self.source,
            sections: self.sections,
            unit,
        }
    }

    /// The greatest end of the pieces of the sections. `WriteFit` if no buffer is so long.
    fn sections_end(&self, unit: Option<usize>) -> Result<usize>
        requires unit { IsTrue (is_unit unit) }
        requires inside { IsTrue (all_in_source self.now.source.now self.now.sections.now) }
        ensures { Returns result (all_end (all_section_pieces self.now.source.now unit
            (sections_offset (header_view self.now.header.now)) self.now.sections.now)) }
    {
        let (end, _) = self
            .section_writer(unit)
            .ends(self.header.sections_offset())?;
        Ok(end)
    }

    /// The greatest end of all pieces, and what `write_into` returns. `WriteFit` if no buffer is so long.
    #[tactic(auto, using(crate::proofs::Ends::image_reach))]
    fn ends(&self, optional: &OptionalHeader, unit: Option<usize>) -> Result<(usize, usize)>
        requires unit { IsTrue (is_unit unit) }
        requires inside { IsTrue (all_in_source self.now.source.now self.now.sections.now) }
        ensures { Returns result (possible (greatest_end (own_pieces self.now optional.now unit))
            (greatest_end (own_pieces self.now optional.now unit), own_end self.now optional.now)) }
    {
        let headers = headers_end(self.header, optional)?;
        let sections = self.sections_end(unit)?;
        let table = self.header.sections_offset();
        let directory = optional.data_directories.get_certificate_table();
        let certificates = certificates_end(directory, &self.certificates)?;
        let end = table.max(last_raw_end(self.sections)).max(certificates);
        Ok((headers.max(sections).max(certificates), end))
    }

    /// The greatest end of the file and of all pieces over it, and what `write_whole` returns. `WriteFit` if no buffer
    /// is so long.
    fn whole_ends(&self, optional: &OptionalHeader) -> Result<(usize, usize)>
        requires { IsTrue (all_in_source self.now.source.now self.now.sections.now) }
        ensures { Returns result (possible (greatest_end (own_whole self.now optional.now)) (
          greatest_end (own_whole self.now optional.now),
          max (length self.now.source.now) (own_end self.now optional.now),
        )) }
    {
        let (needed, end) = self.ends(optional, None)?;
        let length = self.source.len();
        Ok((length.max(needed), length.max(end)))
    }

    /// Returns what `write_into` returns, or `WriteFit` if the pieces don't all fit.
    #[tactic(auto, using(crate::proofs::Ends::fit_by_end))]
    fn require_pieces(
        &self,
        buffer: &[u8],
        optional: &OptionalHeader,
        unit: Option<usize>,
    ) -> Result<usize>
        requires unit { IsTrue (is_unit unit) }
        requires inside { IsTrue (all_in_source self.now.source.now self.now.sections.now) }
        ensures { Returns result (outcome
            ((all_fit (length buffer.now) (own_pieces self.now optional.now unit), WriteFit) ∷ [])
            (own_end self.now optional.now)) }
    {
        let (needed, end) = self.ends(optional, unit)?;
        require_room(buffer, 0, needed)?;
        Ok(end)
    }

    /// Returns what `write_whole` returns, or `WriteFit` if the file or a piece doesn't fit.
    #[tactic(auto, using(crate::proofs::Ends::fit_by_end))]
    fn require_whole_pieces(&self, buffer: &[u8], optional: &OptionalHeader) -> Result<usize>
        requires { IsTrue (all_in_source self.now.source.now self.now.sections.now) }
        ensures { Returns result (outcome
            ((all_fit (length buffer.now) (own_whole self.now optional.now), WriteFit) ∷ [])
            (max (length self.now.source.now) (own_end self.now optional.now))) }
    {
        let (needed, end) = self.whole_ends(optional)?;
        require_room(buffer, 0, needed)?;
        Ok(end)
    }

    /// Tests for the errors of `write_into` that neither the first nor the length of the buffer decides, in their order.
    #[tactic(auto, using(pe_core::proofs::Map::positive))]
    fn require_fields(&self, optional: &OptionalHeader) -> Result<()>
        ensures returned { Returns result (outcome (field_tests self.now optional.now) tt) }
        ensures unit { OnOk result
            (IsTrue (is_unit (Some optional.now.windows_fields.file_alignment))) }
        ensures inside { OnOk result
            (IsTrue (all_in_source self.now.source.now self.now.sections.now)) }
    {
        let alignment = optional.windows_fields.file_alignment as usize;
        if !alignment.is_power_of_two() {
            return Err(Error::Malformed(Reason::WriteAlignment(alignment)));
        }
        let symbols = self.header.coff_header.pointer_to_symbol_table;
        if symbols != 0 {
            return Err(Error::Malformed(Reason::WriteSymbols(symbols)));
        }
        self.section_writer(None).require_data()
    }

    /// Tests for all errors of `write_into` but the first, in their order. Returns what `write_into` returns.
    #[tactic(auto, unfolding(crate::specs::Writing::image_tests))]
    fn require_image(&self, buffer: &[u8], optional: &OptionalHeader) -> Result<usize>
        ensures returned { Returns result (outcome
            (own_tests self.now optional.now (length buffer.now)) (own_end self.now optional.now)) }
        ensures unit { OnOk result
            (IsTrue (is_unit (Some optional.now.windows_fields.file_alignment))) }
        ensures inside { OnOk result
            (IsTrue (all_in_source self.now.source.now self.now.sections.now)) }
        ensures fit { OnOk result (IsTrue (all_fit (length buffer.now)
            (own_pieces self.now optional.now (Some optional.now.windows_fields.file_alignment)))) }
    {
        self.require_fields(optional)?;
        let alignment = optional.windows_fields.file_alignment as usize;
        self.require_pieces(buffer, optional, Some(alignment))
    }

    /// Tests for all errors of `write_whole` but the first, in their order. Returns what `write_whole` returns.
    fn require_whole(&self, buffer: &[u8], optional: &OptionalHeader) -> Result<usize>
        ensures returned { Returns result (outcome (section_tests self.now.source.now
            self.now.sections.now (length buffer.now) (own_whole self.now optional.now))
            (max (length self.now.source.now) (own_end self.now optional.now))) }
        ensures inside { OnOk result
            (IsTrue (all_in_source self.now.source.now self.now.sections.now)) }
        ensures fit { OnOk result
            (IsTrue (all_fit (length buffer.now) (own_whole self.now optional.now))) }
    {
        self.section_writer(None).require_data()?;
        self.require_whole_pieces(buffer, optional)
    }

    /// How many bytes `write_into` needs with this optional header.
    #[tactic(auto, using(crate::proofs::Ends::fit_by_end), unfolding(crate::specs::Writing::image_tests))]
    fn written_len_with(&self, optional: &OptionalHeader) -> Result<usize>
        ensures { Returns result
            (image_length_by (Some (optional_header_view optional.now)) self.now.source.now
            (header_view self.now.header.now) self.now.sections.now
            (certificate_views self.now.certificates)) }
    {
        self.require_fields(optional)?;
        let alignment = optional.windows_fields.file_alignment as usize;
        let (needed, _) = self.ends(optional, Some(alignment))?;
        Ok(needed)
    }

    /// How many bytes `write_whole` needs with this optional header.
    #[tactic(auto, using(crate::proofs::Ends::fit_by_end))]
    fn whole_len_with(&self, optional: &OptionalHeader) -> Result<usize>
        ensures { Returns result
            (whole_length_by (Some (optional_header_view optional.now)) self.now.source.now
            (header_view self.now.header.now) self.now.sections.now
            (certificate_views self.now.certificates)) }
    {
        self.section_writer(None).require_data()?;
        let (needed, _) = self.whole_ends(optional)?;
        Ok(needed)
    }

    /// Writes all pieces. The caller has checked that they fit.
    fn set_pieces(&self, buffer: &mut [u8], optional: &OptionalHeader, unit: Option<usize>)
        requires unit { IsTrue (is_unit unit) }
        requires inside { IsTrue (all_in_source self.now.source.now self.now.sections.now) }
        requires fit { IsTrue
            (all_fit (length buffer.old) (own_pieces self.now optional.now unit)) }
        ensures { buffer.new ≡ put_in_turn buffer.old (own_pieces self.now optional.now unit) }
    {
        set_headers(buffer, self.header, optional);
        self.section_writer(unit)
            .set(buffer, self.header.sections_offset());
        let directory = optional.data_directories.get_certificate_table();
        set_table(buffer, directory, &self.certificates);
    }

    /// Writes the image with this optional header.
    #[tactic(auto, unfolding(crate::specs::Writing::image_tests))]
    fn write_with(&self, buffer: &mut [u8], optional: &OptionalHeader) -> Result<usize>
        ensures { ReturnsWritten result
            (image_by (Some (optional_header_view optional.now)) self.now.source.now
            (header_view self.now.header.now) self.now.sections.now
            (certificate_views self.now.certificates) buffer.old) buffer.old buffer.new }
    {
        let end = self.require_image(buffer, optional)?;
        let unit = optional.windows_fields.file_alignment as usize;
        self.set_pieces(buffer, optional, Some(unit));
        Ok(end)
    }

    /// Writes the file, and over it all pieces. The caller has checked that they fit.
    #[tactic(auto, unfolding(crate::specs::WritingSteps::put_in_turn))]
    fn set_whole(&self, buffer: &mut [u8], optional: &OptionalHeader)
        requires inside { IsTrue (all_in_source self.now.source.now self.now.sections.now) }
        requires fit { IsTrue (all_fit (length buffer.old) (own_whole self.now optional.now)) }
        ensures { buffer.new ≡ put_in_turn buffer.old (own_whole self.now optional.now) }
    {
        set_slice(buffer, 0, self.source);
        self.set_pieces(buffer, optional, None);
    }

    /// Writes the file and the image over it, with this optional header.
    fn write_whole_with(&self, buffer: &mut [u8], optional: &OptionalHeader) -> Result<usize>
        ensures { ReturnsWritten result
            (whole_by (Some (optional_header_view optional.now)) self.now.source.now
            (header_view self.now.header.now) self.now.sections.now
            (certificate_views self.now.certificates) buffer.old) buffer.old buffer.new }
    {
        let end = self.require_whole(buffer, optional)?;
        self.set_whole(buffer, optional);
        Ok(end)
    }

    /// Writes the certificates, as `PE::write_certificates` does. Errors: those of `PE::write_certificates`, in the same order; the
    /// buffer is then unchanged.
    pub fn write_certificates(&self, buffer: &mut [u8]) -> Result<usize>
        ensures { ReturnsWritten result
            (certificates_by (header_view self.now.header.now).optional_header
            (certificate_views self.now.certificates) buffer.old) buffer.old buffer.new }
    {
        match &self.header.optional_header {
            None => Err(Error::Malformed(Reason::NoOptionalHeader)),
            Some(optional) => {
                let directory = optional.data_directories.get_certificate_table();
                write_table(buffer, directory, &self.certificates)
            }
        }
    }

    /// Writes the file, and over it the headers, sections and certificates, as `PE::write_whole` does. Errors: those of
    /// `PE::write_whole`, in the same order; the buffer is then unchanged.
    pub fn write_whole(&self, buffer: &mut [u8]) -> Result<usize>
        ensures { ReturnsWritten result
            (whole_by (header_view self.now.header.now).optional_header self.now.source.now
            (header_view self.now.header.now) self.now.sections.now
            (certificate_views self.now.certificates) buffer.old) buffer.old buffer.new }
    {
        match &self.header.optional_header {
            None => Err(Error::Malformed(Reason::NoOptionalHeader)),
            Some(optional) => self.write_whole_with(buffer, optional),
        }
    }

    /// Writes the headers, sections and certificates, as `PE::write_into` does. Errors: those of `PE::write_into`, in the same
    /// order; the buffer is then unchanged.
    pub fn write_into(&self, buffer: &mut [u8]) -> Result<usize>
        ensures { ReturnsWritten result
            (image_by (header_view self.now.header.now).optional_header self.now.source.now
            (header_view self.now.header.now) self.now.sections.now
            (certificate_views self.now.certificates) buffer.old) buffer.old buffer.new }
    {
        match &self.header.optional_header {
            None => Err(Error::Malformed(Reason::NoOptionalHeader)),
            Some(optional) => self.write_with(buffer, optional),
        }
    }

    /// How many bytes a buffer needs for `write_into`, as `PE::written_len`. Errors: those of `PE::written_len`.
    pub fn written_len(&self) -> Result<usize>
        ensures { Returns result
            (image_length_by (header_view self.now.header.now).optional_header self.now.source.now
            (header_view self.now.header.now) self.now.sections.now
            (certificate_views self.now.certificates)) }
    {
        match &self.header.optional_header {
            None => Err(Error::Malformed(Reason::NoOptionalHeader)),
            Some(optional) => self.written_len_with(optional),
        }
    }

    /// How many bytes a buffer needs for `write_whole`, as `PE::whole_len`. Errors: those of `PE::whole_len`.
    pub fn whole_len(&self) -> Result<usize>
        ensures { Returns result
            (whole_length_by (header_view self.now.header.now).optional_header self.now.source.now
            (header_view self.now.header.now) self.now.sections.now
            (certificate_views self.now.certificates)) }
    {
        match &self.header.optional_header {
            None => Err(Error::Malformed(Reason::NoOptionalHeader)),
            Some(optional) => self.whole_len_with(optional),
        }
    }
}
