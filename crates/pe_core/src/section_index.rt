//! The section map of an image as a value, and its index for images with many sections. A caller makes one map of the
//! section headers, the file alignment and the options, and passes it to every `parse_with_map`.

ghost use Rattle.std.specs.Prelude.{◌≡◌, ◌+◌, ◌-◌, ◌<◌, ◌≤◌, ◌^◌, IfOk, IfErr};
ghost use Rattle.pe_core.specs.Refusals.{Returns};
ghost use Rattle.pe_core.specs.SectionIndex.{offset_or_end};
ghost use Rattle.pe_core.specs.SectionMap.{map_view, mapped, offset_in, section_map};
ghost use Rattle.pe_core.specs.SectionWindow.{IsWindow};
ghost use Rattle.pe_core.specs.declared.error.Error.TheVariants.{Memory};

use crate::error::{Error, Reason, Result};
use crate::options::ParseOptions;
use crate::range_index::{RangeEntry, number_at};
use crate::section_map::{entries_of, find_offset, offset_by, raw_start};
use crate::section_table::SectionTable;
use crate::section_window::{Window, piece_of};
use std::alloc::Allocator;
use std::marker::Model;

/// The section map of an image: it maps RVAs as `find_offset` does. `SectionMap::new` makes one that tests the sections
/// in turn; `SectionIndex::map` makes one that maps each RVA in a few steps, however many sections there are.
#[derive(Drop)]
pub struct SectionMap<'a> {
    sections: &'a [SectionTable],
    file_alignment: u32,
    opts: ParseOptions,
    entries: Option<&'a [RangeEntry]>,
}

impl<'a> Model for SectionMap<'a> {
    ghost use Rattle.std.specs.Prelude.{IfSome};
    ghost use Rattle.pe_core.specs.SectionIndex.{Agrees};
    ghost use Rattle.pe_core.specs.SectionMap.{SectionMapView, map_view};

    ghost Value = { SectionMapView };

    ghost view = { λ s. map_view s.opts s.sections.now s.file_alignment };

    ghost invariant = { λ s.
        IfSome s.entries (λ v. Agrees (map_view s.opts s.sections.now s.file_alignment) v.now) };
}

impl<'a> SectionMap<'a> {
    /// The section map of these sections. It tests them in turn for each RVA.
    pub fn new(
        sections: &'a [SectionTable],
        file_alignment: u32,
        opts: &ParseOptions,
    ) -> SectionMap<'a>
        ensures { result ≡ map_view opts.now sections.entry.now file_alignment }
    {
        SectionMap {
            sections,
            file_alignment,
            opts: *opts,
            entries: None,
        }
    }

    /// The section headers.
    pub fn sections(&self) -> &'a [SectionTable]
        ensures { result.now ≡ self.now.sections }
    {
        self.sections
    }

    /// The file alignment in bytes.
    pub fn file_alignment(&self) -> u32
        ensures { result ≡ self.now.alignment }
    {
        self.file_alignment
    }

    /// The options: whether RVAs are mapped, and what readers do of an image.
    pub fn opts(&self) -> ParseOptions
        ensures { result ≡ self.now.opts }
    {
        self.opts
    }

    /// The file offset of an RVA, as `find_offset` returns it.
    pub fn find(&self, rva: usize) -> Option<usize>
        ensures { result ≡ offset_in self.now rva }
    {
        match self.entries {
            None => self.find_by_sections(rva),
            Some(entries) => {
                let number = number_at(entries, rva as u64);
                if number == 0 {
                    return None;
                }
                let section = &self.sections[number as usize - 1];
                offset_by(section, self.file_alignment, rva)
            }
        }
    }

    /// The file offset without an index. Out of line, so that a lookup by an index saves no registers.
    #[cold]
    #[inline(never)]
    fn find_by_sections(&self, rva: usize) -> Option<usize>
        ensures { result ≡ offset_in self.now rva }
    {
        find_offset(rva, self.sections, self.file_alignment, &self.opts)
    }

    /// The file offset of an RVA. Error: `Unmapped`.
    pub fn offset_of(&self, rva: u32) -> Result<usize>
        ensures { Returns result (mapped (offset_in self.now rva)) }
    {
        match self.find(rva as usize) {
            Some(offset) => Ok(offset),
            None => Err(Error::Malformed(Reason::Unmapped(u64::from(rva)))),
        }
    }

    /// The file offset of an RVA, for readers of texts: for an unmapped one an offset at which no byte is.
    pub(crate) fn find_or_end(&self, rva: u32) -> usize
        ensures { result ≡ offset_or_end (offset_in self.now rva) }
    {
        self.find(rva as usize).unwrap_or(usize::MAX)
    }

    /// The window before the first lookup: no RVA lies in it.
    pub(crate) fn no_window(&self) -> Window
        ensures { IsWindow self.now result }
    {
        Window {
            start: 0,
            end: 0,
            address: 0,
            offset: 0,
        }
    }

    /// The file offset of an RVA, as `find` returns it: without a search if the RVA lies in the window. Otherwise the
    /// window becomes the piece of the RVA, if there is one.
    #[inline(always)]
    pub(crate) fn find_near(&self, rva: u32, window: &mut Window) -> Option<usize>
        requires { IsWindow self.now window.old }
        ensures found { result ≡ offset_in self.now rva }
        ensures window { IsWindow self.now window.new }
    {
        let last = *window;
        if last.start <= u64::from(rva) && u64::from(rva) < last.end {
            return Some(rva as usize - last.address as usize + last.offset as usize);
        }
        self.find_and_keep(rva, window)
    }

    /// The file offset of an RVA outside of the window. Out of line, as it is rare.
    #[cold]
    #[inline(never)]
    fn find_and_keep(&self, rva: u32, window: &mut Window) -> Option<usize>
        requires { IsWindow self.now window.old }
        ensures found { result ≡ offset_in self.now rva }
        ensures window { IsWindow self.now window.new }
    {
        match self.entries {
            None => self.find_by_sections(rva as usize),
            Some(entries) => {
                let (entry, end) = piece_of(entries, rva)?;
                let section = &self.sections[entry.number as usize - 1];
                *window = Window {
                    start: entry.start,
                    end,
                    address: section.virtual_address,
                    offset: raw_start(section) as u32,
                };
                offset_by(section, self.file_alignment, rva as usize)
            }
        }
    }
}

/// The file offset of an RVA, as `find_offset` returns it. Error: `Unmapped`.
pub fn mapped_offset(
    rva: u32,
    sections: &[SectionTable],
    file_alignment: u32,
    opts: &ParseOptions,
) -> Result<usize>
    ensures { Returns result (mapped (section_map opts.now sections.now file_alignment rva)) }
{
    match find_offset(rva as usize, sections, file_alignment, opts) {
        Some(offset) => Ok(offset),
        None => Err(Error::Malformed(Reason::Unmapped(u64::from(rva)))),
    }
}

/// An index that makes a section map fast under many sections: the RVAs, divided into pieces that each belong to the
/// first section that covers them. An index of n sections takes n log n steps to make, and its map log n steps for an
/// RVA.
#[derive(Drop)]
pub struct SectionIndex<'a, A: Allocator> {
    sections: &'a [SectionTable],
    file_alignment: u32,
    opts: ParseOptions,
    entries: Option<Vec<RangeEntry, A>>,
}

impl<'a, A: Allocator> Model for SectionIndex<'a, A> {
    ghost use Rattle.std.specs.Prelude.{IfSome};
    ghost use Rattle.pe_core.specs.SectionIndex.{Agrees};
    ghost use Rattle.pe_core.specs.SectionMap.{SectionMapView, map_view};

    ghost Value = { SectionMapView };

    ghost view = { λ s. map_view s.opts s.sections.now s.file_alignment };

    ghost invariant = { λ s.
        IfSome s.entries (λ v. Agrees (map_view s.opts s.sections.now s.file_alignment) v.items) };
}

impl<'a, A: Allocator> SectionIndex<'a, A> {
    /// The index of these sections. Error: `Memory`.
    pub fn new(
        alloc: A,
        sections: &'a [SectionTable],
        file_alignment: u32,
        opts: &ParseOptions,
    ) -> Result<Self>
    where
        A: Copy,
        ensures made { IfOk result
            (λ index. index ≡ map_view opts.now sections.entry.now file_alignment) }
        ensures refused { IfErr result (λ error. error ≡ Memory record {}) }
    {
        // Otherwise no section is searched: an RVA is its own offset, or every RVA is unmapped.
        let entries = if opts.resolve_rva && file_alignment.is_power_of_two() {
            Some(entries_of(alloc, sections, file_alignment)?)
        } else {
            None
        };
        Ok(SectionIndex {
            sections,
            file_alignment,
            opts: *opts,
            entries,
        })
    }

    /// The section map of the sections, by this index.
    pub fn map(&self) -> SectionMap<'_>
        ensures { result ≡ self.now }
    {
        SectionMap {
            sections: self.sections,
            file_alignment: self.file_alignment,
            opts: self.opts,
            entries: match &self.entries {
                Some(entries) => Some(entries.as_slice()),
                None => None,
            },
        }
    }
}
