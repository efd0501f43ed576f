//! Names of sections that are longer than the 8 bytes of their header: a slash and the offset of a string in the COFF string
//! table. Images of mingw-w64 have such names for their debug sections.
//! https://learn.microsoft.com/windows/win32/debug/pe-format#section-table-section-headers

ghost use Rattle.std.specs.Prelude.{◌≡◌, ◌≤◌, Ok, length};
ghost use Rattle.pe_core.specs.Refusals.{answer_of};
ghost use Rattle.calls_base.specs.Ranges.{bytes_at};
ghost use Rattle.calls_headers.specs.Headers.{long_name_at, strings_at, strings_in, long_name_by_index, reported_name};
ghost use Rattle.calls_base.specs.HandsOut.{result_number};
ghost use Rattle.calls_base.specs.Lists.{Numbered, StepsByIndex};

use calls_base::lists::{Steps, next_index};
use calls_base::ranges::{NO_BYTES, Range, slice_of};
use calls_base::results::options;
use calls_base::text_runs::{Run, Texts};
use calls_base::view::View;
use pe_core::{CoffHeader, DosHeader, Result, SectionTable};
use pe_directories::string_offset;

/// Bytes from the PE signature to the COFF header.
const SIZE_OF_SIGNATURE: usize = 4;

/// The size of an entry of the COFF symbol table in bytes.
const SIZE_OF_SYMBOL: u64 = 18;

/// The size of the size field at the start of a string table in bytes.
const SIZE_FIELD: u32 = 4;

fn strings_in(bytes: &[u8]) -> Result<Option<Range>>
    ensures { answer_of result ≡ strings_in bytes.now }
{
    let dos_header = DosHeader::parse(bytes)?;
    let coff = CoffHeader::parse(bytes, dos_header.pe_pointer as usize + SIZE_OF_SIGNATURE)?;
    match coff.strings(bytes)? {
        Some(table) => Ok(Some(Range {
            offset: u64::from(coff.pointer_to_symbol_table)
                + SIZE_OF_SYMBOL * u64::from(coff.number_of_symbol_table),
            length: table.bytes.len() as u64,
        })),
        None => Ok(None),
    }
}

pub fn strings_at(view: &View) -> Result<Option<Range>>
    ensures { answer_of result ≡ strings_at view.now.bytes.now view.now.image.now }
{
    if options(view.image.mode).resolve_rva {
        strings_in(view.bytes)
    } else {
        Ok(None)
    }
}

/// The string that the name of a section leads to, by the texts of the string table.
#[tactic(auto, unfolding(pe_directories::specs::SectionNames::long_section_name))]
pub fn long_name_by(
    bytes: &[u8],
    table: &Range,
    section: &SectionTable,
    texts: &Texts<'_>,
) -> Result<Option<Range>>
    requires { bytes_at bytes.now table.now ≡ Ok texts.now.bytes.now }
    ensures { answer_of result ≡ long_name_at bytes.now table.now section.now }
{
    slice_of(bytes, table)?;
    let Some(offset) = string_offset(section) else {
        return Ok(None);
    };
    if offset < SIZE_FIELD {
        return Ok(None);
    }
    let Some(name) = texts.at(offset as usize) else {
        return Ok(None);
    };
    Ok(Some(Range {
        offset: table.offset + u64::from(offset),
        length: name.len() as u64,
    }))
}

/// The same, read by itself.
pub fn long_name_at(bytes: &[u8], table: &Range, section: &SectionTable) -> Result<Option<Range>>
    ensures { answer_of result ≡ long_name_at bytes.now table.now section.now }
{
    let texts = Texts::alone(slice_of(bytes, table)?);
    long_name_by(bytes, table, section, &texts)
}

/// Writes where in the string table the long names of sections start to a room, as starts, of as many sections as it has room for,
/// and returns how many they are.
pub fn put_long_names(sections: &[SectionTable], room: &mut [Run]) -> usize
    ensures { result ≤ length room.new }
{
    let mut count = 0;
    for i in 0..sections.len() {
        if count == room.len() {
            break;
        }
        if let Some(offset) = string_offset(&sections[i]) {
            room[count] = Run::at(offset as usize);
            count += 1;
        }
    }
    count
}

/// The range of a name as an entry of the list: empty without one.
fn reported_name(given: Result<Option<Range>>) -> Result<Option<Range>>
    ensures { answer_of result ≡ reported_name (answer_of given) }
{
    Ok(Some(given?.unwrap_or(NO_BYTES)))
}

/// Steps over names that are read by themselves.
#[derive(Clone, Copy)]
pub struct Alone<'a> {
    pub view: &'a View<'a>,
    pub table: Range,
}

impl<'a> Alone<'a> {
    fn name_at(&self, index: u64) -> Result<Option<Range>>
        ensures { answer_of result ≡ long_name_by_index self.now.view.now.bytes.now self.now.table
            self.now.view.now.sections.now index }
    {
        match self.view.sections.get(index as usize) {
            Some(section) => reported_name(long_name_at(self.view.bytes, &self.table, section)),
            None => Ok(None),
        }
    }
}

impl<'a> Steps<u64, Range> for Alone<'a> {
    ghost steps = { λ s. Numbered result_number (StepsByIndex (long_name_by_index
        s.view.now.bytes.now s.table s.view.now.sections.now)) };

    fn step(&self, index: &mut u64) -> std::result::Result<Option<Range>, u32> {
        next_index(self.name_at(*index), index)
    }
}

/// Steps over names that are read together.
#[derive(Clone, Copy)]
pub struct Together<'a, 'b> {
    pub view: &'a View<'a>,
    pub table: Range,
    pub texts: Texts<'b>,
    ghost same: { bytes_at view.now.bytes.now table ≡ Ok texts.bytes.now },
}

impl<'a, 'b> Together<'a, 'b> {
    fn name_at(&self, index: u64) -> Result<Option<Range>>
        ensures { answer_of result ≡ long_name_by_index self.now.view.now.bytes.now self.now.table
            self.now.view.now.sections.now index }
    {
        let Together { view, table, .. } = self;
        match view.sections.get(index as usize) {
            Some(section) => reported_name(long_name_by(view.bytes, table, section, &self.texts)),
            None => Ok(None),
        }
    }
}

impl<'a, 'b> Steps<u64, Range> for Together<'a, 'b> {
    ghost steps = { λ s. Numbered result_number (StepsByIndex (long_name_by_index
        s.view.now.bytes.now s.table s.view.now.sections.now)) };

    fn step(&self, index: &mut u64) -> std::result::Result<Option<Range>, u32> {
        next_index(self.name_at(*index), index)
    }
}

/// The sections from an index on, so many at most.
pub fn next_sections(sections: &[SectionTable], next: u64, most: usize) -> &[SectionTable] {
    let count = sections.len();
    if count as u64 <= next {
        return &[];
    }
    let rest = &sections[next as usize..];
    &rest[..rest.len().min(most)]
}

/// The texts of a string table, of which the long names of these sections are read together.
pub fn texts_of<'a>(strings: &'a [u8], sections: &[SectionTable], room: &'a mut [Run]) -> Texts<'a>
    ensures { result.bytes.now ≡ strings.entry.now }
{
    let count = put_long_names(sections, room);
    Texts::together(strings, &mut room[..count])
}
