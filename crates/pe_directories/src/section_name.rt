//! Names of sections that are longer than the 8 bytes of their header: a slash and the decimal offset of a string in the COFF
//! string table, as `/4`, or two slashes and the offset in base 64, which LLVM writes above 9,999,999. Objects have such
//! names, and images of mingw-w64 for their debug sections. A hostile file may let thousands of them lead into one long string,
//! where to read each by itself would take quadratic time: `long_section_names` reads those of all sections together. See the
//! [section table](https://learn.microsoft.com/windows/win32/debug/pe-format#section-table-section-headers).

ghost use Rattle.std.specs.Prelude.{◌≡◌, ◌<◌, map, IfOk};
ghost use Rattle.std.specs.Option.{option_map};
ghost use Rattle.pe_directories.specs.SectionNames.{digit_of, with_digit, number_after, offset_in_name, string_offset, long_section_name, text_offset};
ghost use Rattle.pe_core.specs.Text.{texts_of};

use pe_core::{SectionTable, Strtab, texts_at};
use std::alloc::{AllocError, Allocator};

/// The size of the size field at the start of a string table in bytes.
const SIZE_FIELD: u32 = 4;

/// The value of a digit, in base 64 or decimal.
#[tactic(auto, unfolding(crate::specs::SectionNames::digit_of))]
fn digit_of(is_base_64: bool, digit: u8) -> Option<u8>
    ensures { result ≡ digit_of is_base_64 digit }
{
    match digit {
        b'A'..=b'Z' if is_base_64 => Some(digit - b'A'),
        b'a'..=b'z' if is_base_64 => Some(digit - b'a' + 26),
        b'0'..=b'9' if is_base_64 => Some(digit - b'0' + 52),
        b'+' if is_base_64 => Some(62),
        b'/' if is_base_64 => Some(63),
        b'0'..=b'9' => Some(digit - b'0'),
        _ => None,
    }
}

/// The number with one more digit. `None` if it has more than 32 bits.
#[tactic(auto, unfolding(crate::specs::SectionNames::with_digit))]
fn with_digit(is_base_64: bool, number: u32, digit: u8) -> Option<u32>
    ensures { result ≡ with_digit is_base_64 number digit }
{
    let base: u64 = if is_base_64 { 64 } else { 10 };
    let number = base * u64::from(number) + u64::from(digit);
    if number < 1 << 32 {
        Some(number as u32)
    } else {
        None
    }
}

/// The number that these digits write.
#[tactic(auto, unfolding(crate::specs::SectionNames::number_after))]
fn number_of(is_base_64: bool, digits: &[u8]) -> Option<u32>
    ensures { result ≡ number_after is_base_64 0 digits.now }
{
    let mut number = 0;
    let mut left = digits;
    while let Some((first, rest)) = left.split_first() {
        let digit = digit_of(is_base_64, *first)?;
        number = with_digit(is_base_64, number, digit)?;
        left = rest;
    }
    Some(number)
}

/// The offset in the string table that a name leads to.
#[tactic(auto, unfolding(crate::specs::SectionNames::offset_in_name))]
fn offset_in_name(name: &[u8]) -> Option<u32>
    ensures { result ≡ offset_in_name name.now }
{
    match name {
        [b'/', b'/', digits @ ..] => number_of(true, digits),
        [b'/', digits @ ..] => number_of(false, digits),
        _ => None,
    }
}

/// The offset in the string table that the name of a section leads to, from the size field of the table. `None` if the name is
/// none that leads there, as `.text`.
pub fn string_offset(section: &SectionTable) -> Option<u32>
    ensures { result ≡ string_offset section.now }
{
    offset_in_name(section.name()?.as_bytes())
}

/// The string of `strings`, the string table of the object or image, that the name of a section leads to. `None` if the name
/// is none that leads there, as `.text`, or if there is no string at its offset.
#[tactic(auto, unfolding(crate::specs::SectionNames::long_section_name))]
pub fn long_section_name<'a>(section: &SectionTable, strings: &Strtab<'a>) -> Option<&'a str>
    ensures { option_map (λ s. s.now) result
        ≡ long_section_name section.now strings.now.bytes.now }
{
    let offset = string_offset(section)?;
    strings.string_at(offset as usize)
}

/// The offset in the string table at which the name of a section stands. No byte is there if the name leads into the size
/// field, or is none that leads to the table.
#[tactic(auto, unfolding(crate::specs::SectionNames::text_offset))]
fn text_offset(section: &SectionTable) -> usize
    ensures { result ≡ text_offset section.now }
{
    match string_offset(section) {
        Some(offset) if offset >= SIZE_FIELD => offset as usize,
        _ => usize::MAX,
    }
}

/// The same of each section.
fn text_offsets<A: Allocator>(
    alloc: A,
    sections: &[SectionTable],
) -> Result<Vec<usize, A>, AllocError>
    ensures { IfOk result (λ v. v.items ≡ map text_offset sections.now) }
{
    let mut offsets = Vec::with_capacity(alloc, sections.len())?;
    for section in sections {
        offsets.push(text_offset(section))?;
    }
    Ok(offsets)
}

/// The strings that the names of the sections lead to, in their order: of each what `long_section_name` returns. It takes about
/// as long as to sort the offsets, and to read each byte of the string table twice, however many of the strings overlap. Error:
/// `AllocError`, if memory runs out.
#[tactic(auto, using(crate::proofs::SectionTexts::names_there))]
pub fn long_section_names<'a, A: Allocator + Copy + Drop>(
    alloc: A,
    sections: &[SectionTable],
    strings: &Strtab<'a>,
) -> Result<Vec<Option<&'a str>, A>, AllocError>
    ensures { IfOk result (λ v. texts_of v.items
        ≡ map (λ s. long_section_name s strings.now.bytes.now) sections.now) }
{
    let offsets = text_offsets(alloc, sections)?;
    texts_at(alloc, strings.bytes, &offsets)
}
