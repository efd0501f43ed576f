//! The overlay of an image: the bytes of the file after its headers and the raw data of its sections, which no loader reads.
//! Installers keep their archives there, and signed images their certificates.

ghost use Rattle.std.specs.Prelude.{◌≡◌};
ghost use Rattle.pe_directories.specs.Overlays.{raw_end, furthest_end, overlay_range};

use pe_core::{ByteRange, SectionTable};

/// The offset at which the raw data of a section ends, 0 if it has none.
fn raw_end(section: &SectionTable) -> u64
    ensures { result ≡ raw_end section.now }
{
    if section.size_of_raw_data == 0 {
        0
    } else {
        u64::from(section.pointer_to_raw_data) + u64::from(section.size_of_raw_data)
    }
}

/// The furthest end of headers of this size and of the raw data of sections.
#[tactic(auto, unfolding(crate::specs::Overlays::furthest_end))]
fn furthest_end(size_of_headers: u32, sections: &[SectionTable]) -> u64
    ensures { result ≡ furthest_end size_of_headers sections.now }
{
    let mut end = u64::from(size_of_headers);
    let mut left = sections;
    while let Some((first, rest)) = left.split_first() {
        end = end.max(raw_end(first));
        left = rest;
    }
    end
}

/// The range of the overlay in a file of `length` bytes. `size_of_headers` is the field of the optional header, 0 without one.
/// `None` if no byte follows the headers and the raw data of all sections. The overlay may hold what headers lead to: the
/// certificate table, COFF symbols.
pub fn overlay_range(
    length: usize,
    size_of_headers: u32,
    sections: &[SectionTable],
) -> Option<ByteRange>
    ensures { result ≡ overlay_range length size_of_headers sections.now }
{
    let end = furthest_end(size_of_headers, sections);
    if end < length as u64 {
        Some(ByteRange {
            offset: end as usize,
            length: length - end as usize,
        })
    } else {
        None
    }
}
