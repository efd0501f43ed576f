//! Writes images into buffers: headers, sections and certificates, as the fields of a `PE` are now. A caller changes
//! fields of an image that was read, and writes it back. Layout:
//! <https://learn.microsoft.com/windows/win32/debug/pe-format>.
//!
//! Each writer first tests for all errors in their order, and then writes without further tests. So a write that fails
//! leaves the buffer as it was.

pub mod certificate_list;
mod certificates;
mod ends;
mod headers;
pub mod image;
mod outside;
mod overlaps;
mod records;
pub mod sections;

ghost use Rattle.std.specs.Prelude.{◌≡◌, map};
ghost use Rattle.pe_core.specs.Refusals.{Returns};
ghost use Rattle.pe_records.specs.Certificates.{certificate_view};
ghost use Rattle.pe_image.specs.CertificateLists.{certificate_views};
ghost use Rattle.pe_image.specs.Image.{image_view, source_of};
ghost use Rattle.pe_image.specs.Writing.{Moves, ReturnsWritten, certificates_written, image_length, image_written, sections_written, whole_length, whole_written};

use crate::pe::PE;
use crate::write::certificate_list::CertificateList;
use crate::write::image::ImageWriter;
use crate::write::sections::SectionWriter;
use pe_core::Result;
use std::alloc::Allocator;

impl<'a, A: Allocator + Copy + Drop> PE<'a, A> {
    /// Writes the certificates one after the other, from the offset of the certificate directory on, each as
    /// `AttributeCertificate::write_into` does. Without that directory none is written. Returns the offset after the
    /// last one, or 0 if none is written. Offsets count in bytes from the start of the buffer.
    ///
    /// Errors, in this order, each of which leaves the buffer as it was: `NoOptionalHeader`; `WriteFit` if the
    /// certificates don't all fit into the buffer.
    pub fn write_certificates(&self, buffer: &mut [u8]) -> Result<usize>
        ensures { ReturnsWritten result
            (certificates_written (image_view self.now) buffer.old) buffer.old buffer.new }
    {
        self.writer().write_certificates(buffer)
    }

    /// Writes the sections: for each its data at the raw pointer, its header, and zeros after the data up to a multiple
    /// of `file_alignment` bytes, counted from the raw pointer. `None` writes no zeros. The headers are written one
    /// after the other, from `offset` on. The data comes from the file that the image was read from. Where pieces
    /// overlap, the later one wins. Moves `offset` past the headers, and returns it. Offsets count in bytes from the
    /// start of the buffer.
    ///
    /// Errors, in this order, each of which leaves the buffer and `offset` as they were: `WriteAlignment` for an
    /// alignment of 0; `WriteOverlap` if two unequal sections share a byte of the file; `WriteSection` if the data of a
    /// section is not in the file that the image was read from; `WriteFit` if the pieces don't all fit into the buffer.
    pub fn write_sections(
        &self,
        buffer: &mut [u8],
        offset: &mut usize,
        file_alignment: Option<usize>,
    ) -> Result<usize>
        ensures written { ReturnsWritten result (sections_written (source_of self.now) (image_view
            self.now).sections file_alignment offset.old buffer.old) buffer.old buffer.new }
        ensures offset { Moves result offset.old offset.new }
    {
        let writer = SectionWriter {
            source: self.bytes,
            sections: &self.sections,
            unit: file_alignment,
        };
        let end = writer.write(buffer, *offset)?;
        *offset = end;
        Ok(end)
    }

    /// The writer of the image, as its fields are now.
    fn writer(&self) -> ImageWriter<'_>
        ensures source { result.source.now ≡ source_of self.now }
        ensures header { result.header.now ≡ self.now.header }
        ensures sections { result.sections.now ≡ self.now.sections.items }
        ensures certificates { certificate_views result.certificates
            ≡ map certificate_view self.now.certificates.items }
    {
        ImageWriter {
            source: self.bytes,
            header: &self.header,
            sections: &self.sections,
            certificates: CertificateList::Values(&self.certificates),
        }
    }

    /// Writes the whole file that the image was read from, and over it the headers, sections and certificates as the
    /// fields are now. So what no field describes stays: COFF symbols and their strings, data after the last section
    /// or the certificates, and bytes between sections. Unlike `write_into` it pads no section with zeros, since
    /// there may be such bytes. An image with unchanged fields, without certificates, is written byte for byte (law
    /// `whole_images_come_back`).
    ///
    /// Where pieces overlap, the later one wins. Bytes that no piece covers stay as they were. Symbols stay where they
    /// are, wherever the field `pointer_to_symbol_table` points to. Returns the greater of the file's length and what
    /// `write_into` returns, in bytes.
    ///
    /// Errors, in this order, each of which leaves the buffer as it was: `NoOptionalHeader`; `WriteOverlap` if two
    /// unequal sections share a byte of the file; `WriteSection` if the data of a section is not in the file that the
    /// image was read from; `WriteFit` if the file or a piece doesn't fit into the buffer.
    pub fn write_whole(&self, buffer: &mut [u8]) -> Result<usize>
        ensures { ReturnsWritten result (whole_written (source_of self.now)
            (image_view self.now) buffer.old) buffer.old buffer.new }
    {
        self.writer().write_whole(buffer)
    }

    /// Writes the image, as its fields are now, in these pieces:
    /// - the DOS header at offset 0, the stub at 64, the PE signature at the offset `pe_pointer` of the DOS header, the
    ///   COFF header at `pe_pointer` + 4, the optional header at `pe_pointer` + 24;
    /// - for each section its data at the raw pointer, its header in the section table, and zeros after the data up to
    ///   a multiple of the file alignment, counted from the raw pointer. The data comes from the file that the image
    ///   was read from;
    /// - the certificates, as `write_certificates` does.
    ///
    /// Where pieces overlap, the later one wins. Bytes that no piece covers stay as they were. Offsets count in bytes
    /// from the start of the buffer. Returns the greatest of three offsets: the start of the section table, the end of
    /// the data of the last section with the greatest raw pointer, and the end of the certificates, if one is written.
    ///
    /// Errors, in this order, each of which leaves the buffer as it was: `NoOptionalHeader`; `WriteAlignment` unless
    /// the file alignment is a power of two; `WriteSymbols` unless the pointer to COFF symbols is 0; `WriteOverlap` if
    /// two unequal sections share a byte of the file; `WriteSection` if the data of a section is not in the file that
    /// the image was read from; `WriteFit` if the pieces don't all fit into the buffer.
    pub fn write_into(&self, buffer: &mut [u8]) -> Result<usize>
        ensures { ReturnsWritten result (image_written (source_of self.now)
            (image_view self.now) buffer.old) buffer.old buffer.new }
    {
        self.writer().write_into(buffer)
    }

    /// How many bytes a buffer needs for `write_into`: the greatest end of the pieces. A buffer of this length or more is
    /// written; a shorter one is refused by `WriteFit` (law `buffers_of_the_length_are_written`). It may be greater than
    /// what `write_into` returns, which counts no zeros after a section, and smaller than the file that was read, whose
    /// other bytes `write_into` doesn't write.
    ///
    /// Errors: those of `write_into`, in the same order, and `WriteFit` only if no buffer is long enough, since its
    /// length is at most 2^63 - 1 bytes.
    pub fn written_len(&self) -> Result<usize>
        ensures { Returns result (image_length (source_of self.now) (image_view self.now)) }
    {
        self.writer().written_len()
    }

    /// How many bytes a buffer needs for `write_whole`: the length of the file, or the greatest end of a piece if that is
    /// greater. A buffer of this length or more is written; a shorter one is refused by `WriteFit` (law
    /// `buffers_of_the_length_are_written`).
    ///
    /// Errors: those of `write_whole`, in the same order, and `WriteFit` only if no buffer is long enough, since its
    /// length is at most 2^63 - 1 bytes.
    pub fn whole_len(&self) -> Result<usize>
        ensures { Returns result (whole_length (source_of self.now) (image_view self.now)) }
    {
        self.writer().whole_len()
    }
}
