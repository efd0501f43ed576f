//! The names of the DLLs of an import directory, each once, where a hostile image lets thousands of records name one long
//! text. Names at one offset are the same, so each offset is read and compared once.

ghost use Rattle.std.specs.Prelude.{◌≡◌, map, IfErr, IfOk};
ghost use Rattle.std.specs.List.{filter_map};
ghost use Rattle.pe_core.specs.Imports.{AreLibraries, import_data_view, import_record_view, name_read_of};
ghost use Rattle.pe_core.specs.ImportSteps.{AreSameNumbers};
ghost use Rattle.pe_core.specs.SectionIndex.{offset_or_end};
ghost use Rattle.pe_core.specs.SectionMap.{offset_in};
ghost use Rattle.pe_core.specs.Text.{texts_of};
ghost use Rattle.pe_core.specs.declared.error.Error.TheVariants.{Memory};

use crate::error::Result;
use crate::import::{ImportData, SyntheticImportDirectoryEntry, sort_once};
use crate::many_texts::texts_at;
use crate::mapped_bytes::MappedBytes;
use crate::section_index::SectionMap;
use std::alloc::{AllocError, Allocator};

/// The offsets of the names of the records.
fn name_offsets<A: Allocator>(
    alloc: A,
    records: &[SyntheticImportDirectoryEntry<'_>],
    sections: &SectionMap<'_>,
) -> std::result::Result<Vec<usize, A>, AllocError>
    ensures { IfOk result (λ v. v.items ≡ map
        (λ r. offset_or_end (offset_in sections.now r.import_directory_entry.name_rva))
        (map import_record_view records.now)) }
{
    let mut offsets = Vec::with_capacity(alloc, records.len())?;
    for record in records {
        offsets.push(sections.find_or_end(record.import_directory_entry.name_rva))?;
    }
    Ok(offsets)
}

/// Keeps each number once.
fn keep_once<A: Allocator>(numbers: &mut Vec<usize, A>)
    ensures { AreSameNumbers numbers.old.items numbers.new.items }
{
    numbers.sort_unstable();
    numbers.dedup();
}

/// The texts that are there.
fn texts_there<'a, A: Allocator>(
    alloc: A,
    texts: &[Option<&'a str>],
) -> std::result::Result<Vec<&'a str, A>, AllocError>
    ensures { IfOk result
        (λ v. map (λ s. s.now) v.items ≡ filter_map (λ text. text) (texts_of texts.now)) }
{
    let mut there = Vec::with_capacity(alloc, texts.len())?;
    for text in texts {
        if let Some(text) = *text {
            there.push(text)?;
        }
    }
    Ok(there)
}

impl<'a, A: Allocator + Copy + Drop> ImportData<'a, A> {
    /// The names of the imported DLLs, as `libraries` returns them of the data of this image, by which they were
    /// parsed. It reads the names again, at the records' RVAs, skips those that are not there, and compares names at
    /// one offset once, where `libraries` compares each record's. Error: `Memory`.
    pub fn libraries_with_map(
        &self,
        alloc: A,
        image: &MappedBytes<'a, '_>,
    ) -> Result<Vec<&'a str, A>>
        ensures listed { IfOk result (λ v. AreLibraries
            (filter_map (name_read_of (offset_in image.now.map) image.now.bytes.now)
            (import_data_view self.now)) (map (λ s. s.now) v.items)) }
        ensures refused { IfErr result (λ error. error ≡ Memory record {}) }
    {
        let mut offsets = name_offsets(alloc, &self.import_data, &image.map)?;
        keep_once(&mut offsets);
        let texts = texts_at(alloc, image.bytes, &offsets)?;
        let mut names = texts_there(alloc, &texts)?;
        sort_once(&mut names);
        Ok(names)
    }
}
