//! Where a data directory of an image is, by its headers and the section map. See Microsoft's
//! [optional header](https://learn.microsoft.com/windows/win32/debug/pe-format#optional-header-data-directories-image-only).

ghost use Rattle.std.specs.Prelude.{◌≡◌, ◌≤◌, true, length};
ghost use Rattle.pe_core.specs.Header.{header_view};
ghost use Rattle.pe_core.specs.SectionMap.{offset_of};
ghost use Rattle.pe_rewrite.specs.Places.{directory_in, headers_end, section_headers};

use crate::place::section_header;
use pe_core::{DataDirectory, Header, ParseOptions, find_offset};

/// The directory with this index, of zeros if there is none.
pub fn directory_in(header: &Header<'_>, index: usize) -> DataDirectory
    ensures { result ≡ directory_in (header_view header.now).optional_header index }
{
    let none = DataDirectory {
        virtual_address: 0,
        size: 0,
    };
    match &header.optional_header {
        Some(optional_header) => {
            let rows = optional_header.data_directories.rows();
            if index < rows.len() {
                rows[index]
            } else {
                none
            }
        }
        None => none,
    }
}

/// The file offset of an RVA by the section map.
#[tactic(auto, using(crate::proofs::Mapped::map_start))]
pub fn offset_of(bytes: &[u8], header: &Header<'_>, alignment: u32, rva: u32) -> Option<usize>
    requires { headers_end (header_view header.now) ≤ length bytes.now }
    ensures { result ≡ offset_of true alignment
        (section_headers bytes.now (header_view header.now)) rva }
{
    let options = ParseOptions::default();
    for index in 0..header.coff_header.number_of_sections as usize {
        let section = section_header(bytes, header, index);
        match find_offset(rva as usize, &[section], alignment, &options) {
            Some(offset) => return Some(offset),
            None => {}
        }
    }
    None
}
