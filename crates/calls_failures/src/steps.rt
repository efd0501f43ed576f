//! Why a step of a walk is refused, or an item that is read by its key, with the numbers of the error: which RVA is unmapped, which
//! code is invalid. The result of a call is one number. These calls read the item again, by a copy of the walk, and say the rest.

ghost use Rattle.std.specs.Prelude.{◌≡◌, ◌==◌, ◌<◌, Ok};
ghost use Rattle.pe_core.specs.Imports.{entry_size};
ghost use Rattle.pe_directories.specs.BaseRelocations.{first_block, first_relocation};
ghost use Rattle.calls_directories.specs.Certificates.{certificate_step};
ghost use Rattle.calls_base.specs.Directories.{first_in, step_of};
ghost use Rattle.calls_directories.specs.DirectoryRuns.{block_reported, relocation_reported};
ghost use Rattle.calls_base.specs.FailureNumbers.{directory_refused, failure_by, refused};
ghost use Rattle.calls_directories.specs.Imports.{import_step, library_step, hint_rva};
ghost use Rattle.calls_failures.specs.StepFailures.{block_numbers, certificate_numbers, end_of_list, import_numbers, library_numbers, relocation_numbers};
ghost use Rattle.calls_base.specs.Views.{map_of};

pub mod arm64;
pub mod bound_imports;
pub mod delay_imports;
pub mod resources;
pub mod symbols;
pub mod unwinding;

use calls_base::kept_sections::NO_SECTIONS;
use calls_base::named_view::NamedView;
use calls_base::numbers::{
    BLOCK_SIZE, BLOCK_TRUNCATED, CERTIFICATE_REVISION, CERTIFICATE_SIZE, CERTIFICATE_TABLE,
    CERTIFICATE_TYPE, ErrorNumbers, Failure, IMPORT_NAME, NO_ARGUMENT, SHORT, UNMAPPED,
    directory_refused, failure_with, needed_at, needed_in, no_numbers, numbers, refused,
    refused_value, u16_there, u32_there,
};
use calls_base::ranges::{Range, bytes_there};
use calls_base::view::{View, map_by};
use calls_directories::directories::base_relocations::{next_block, next_relocation};
use calls_directories::directories::certificates::step as certificate_step;
use calls_directories::names::imports::{
    Imports, Libraries, hint_rva, import_by_view, library_step_kept,
};
use pe_core::{ImportDirectoryEntry, lookup_size};

/// The size of a record of the import directory in bytes.
const SIZE_OF_RECORD: u64 = 20;

/// The size of a hint in bytes.
const SIZE_OF_HINT: u64 = 2;

/// The size of the header of a certificate in bytes.
const SIZE_OF_HEADER: u64 = 8;

/// Where in that header the revision is.
const REVISION_IN_HEADER: usize = 4;

/// Where in that header the type is.
const TYPE_IN_HEADER: usize = 6;

/// The size of the header of a block of base relocations in bytes.
const SIZE_OF_BLOCK_HEADER: u64 = 8;

/// Where in that header the size of the block is.
const SIZE_IN_BLOCK: usize = 4;

/// The size of a relocation in bytes, without an argument.
const SIZE_OF_RELOCATION: u64 = 2;

/// That an entry of so many bytes is needed after the last whole one of a list from an offset on.
fn end_of_list(bytes: &[u8], list: Option<usize>, width: usize) -> ErrorNumbers
    requires { 0 < width }
    ensures { result ≡ end_of_list width bytes.now list }
{
    let start = list.unwrap_or(0);
    let whole = bytes.len().saturating_sub(start) / width * width;
    needed_at((start + whole) as u64, width as u64)
}

/// The numbers of the failure of the library that a walk is at.
#[tactic(auto, unfolding(crate::specs::StepFailures::library_numbers))]
pub fn library_numbers(view: &View, walk: &Libraries, number: u32) -> ErrorNumbers
    ensures { result ≡ library_numbers (map_of view.now)
        (entry_size (view.now.image.now.width == 64)) view.now.bytes.now walk.now number }
{
    let Ok(entry) = ImportDirectoryEntry::parse(view.bytes, walk.next as usize) else {
        return needed_at(walk.next, SIZE_OF_RECORD);
    };
    match number {
        SHORT => {
            let list = map_by(view, entry.lookups_rva());
            end_of_list(view.bytes, list, lookup_size(view.image.width == 64))
        }
        UNMAPPED | IMPORT_NAME => refused_value(u64::from(entry.name_rva)),
        _ => no_numbers(),
    }
}

pub fn library_failure(view: &View, walk: &Libraries) -> Option<Failure>
    ensures { result ≡ failure_by (library_numbers (map_of view.now)
        (entry_size (view.now.image.now.width == 64)) view.now.bytes.now walk.now)
        (refused (library_step (map_of view.now)
        (entry_size (view.now.image.now.width == 64)) view.now.bytes.now walk.now).0) }
{
    match refused(library_step_kept(&NamedView::alone(view), NO_SECTIONS, *walk).0) {
        Some(number) => Some(failure_with(number, library_numbers(view, walk, number))),
        None => None,
    }
}

/// The numbers of the failure of the import that a walk is at.
#[tactic(auto, unfolding(crate::specs::StepFailures::import_numbers))]
pub fn import_numbers(view: &View, walk: &Imports, number: u32) -> ErrorNumbers
    ensures { result ≡ import_numbers (map_of view.now)
        (entry_size (view.now.image.now.width == 64)) view.now.bytes.now walk.now number }
{
    let rva = hint_rva(view, walk);
    let width = lookup_size(view.image.width == 64) as u64;
    match number {
        SHORT if walk.left.length < width => {
            needed_in(view.bytes, &walk.left, walk.left.offset, width)
        }
        SHORT => {
            let hint = map_by(view, rva).unwrap_or(0);
            needed_in(view.bytes, &walk.left, hint as u64, SIZE_OF_HINT)
        }
        UNMAPPED | IMPORT_NAME => refused_value(u64::from(rva)),
        _ => no_numbers(),
    }
}

pub fn import_failure(view: &View, walk: &Imports) -> Option<Failure>
    ensures { result ≡ failure_by (import_numbers (map_of view.now)
        (entry_size (view.now.image.now.width == 64)) view.now.bytes.now walk.now)
        (refused (import_step (map_of view.now)
        (entry_size (view.now.image.now.width == 64)) view.now.bytes.now walk.now).0) }
{
    let mut after = *walk;
    match refused(import_by_view(&NamedView::alone(view), &mut after)) {
        Some(number) => Some(failure_with(number, import_numbers(view, walk, number))),
        None => None,
    }
}

/// The numbers of the failure of the certificate that a walk is at.
#[tactic(auto, unfolding(crate::specs::StepFailures::certificate_numbers))]
pub fn certificate_numbers(bytes: &[u8], walk: &Range, number: u32) -> ErrorNumbers
    ensures { result ≡ certificate_numbers bytes.now walk.now number }
{
    let range = Range {
        offset: walk.offset,
        length: SIZE_OF_HEADER,
    };
    let header = bytes_there(bytes, &range);
    match number {
        SHORT => needed_at(walk.offset, SIZE_OF_HEADER),
        CERTIFICATE_TABLE => numbers(walk.offset.saturating_add(walk.length), 0, 0),
        CERTIFICATE_SIZE => numbers(0, u64::from(u32_there(header, 0)), 0),
        CERTIFICATE_REVISION => refused_value(u64::from(u16_there(header, REVISION_IN_HEADER))),
        CERTIFICATE_TYPE => refused_value(u64::from(u16_there(header, TYPE_IN_HEADER))),
        _ => no_numbers(),
    }
}

pub fn certificate_failure(bytes: &[u8], walk: &Range) -> Option<Failure>
    ensures { result ≡ failure_by (certificate_numbers bytes.now walk.now)
        (refused (certificate_step bytes.now walk.now).0) }
{
    match refused(certificate_step(bytes, *walk).0) {
        Some(number) => Some(failure_with(number, certificate_numbers(bytes, walk, number))),
        None => None,
    }
}

/// The numbers of the failure of the block that a walk is at.
#[tactic(auto, unfolding(crate::specs::StepFailures::block_numbers))]
pub fn block_numbers(bytes: &[u8], walk: &Range, number: u32) -> ErrorNumbers
    ensures { result ≡ block_numbers bytes.now walk.now number }
{
    let size = u32_there(bytes_there(bytes, walk), SIZE_IN_BLOCK);
    match number {
        SHORT => needed_in(bytes, walk, walk.offset, SIZE_OF_BLOCK_HEADER),
        BLOCK_SIZE => refused_value(u64::from(size)),
        BLOCK_TRUNCATED => numbers(0, u64::from(size), walk.length),
        _ => no_numbers(),
    }
}

pub fn block_failure(bytes: &[u8], walk: &Range) -> Option<Failure>
    ensures { result ≡ failure_by (block_numbers bytes.now walk.now) (directory_refused
        (step_of (block_reported walk.now) (first_in first_block bytes.now walk.now))) }
{
    let mut after = *walk;
    match directory_refused(next_block(bytes, &mut after)) {
        Some(number) => Some(failure_with(number, block_numbers(bytes, walk, number))),
        None => None,
    }
}

/// The numbers of the failure of the relocation that a walk is at.
#[tactic(auto, unfolding(crate::specs::StepFailures::relocation_numbers))]
pub fn relocation_numbers(bytes: &[u8], page_rva: u32, walk: &Range, number: u32) -> ErrorNumbers
    ensures { result ≡ relocation_numbers bytes.now page_rva walk.now number }
{
    let entry = u16_there(bytes_there(bytes, walk), 0);
    match number {
        SHORT => needed_in(bytes, walk, walk.offset, SIZE_OF_RELOCATION),
        NO_ARGUMENT => refused_value(u64::from(page_rva) + u64::from(entry % 4096)),
        _ => no_numbers(),
    }
}

pub fn relocation_failure(bytes: &[u8], page_rva: u32, walk: &Range) -> Option<Failure>
    ensures { result ≡ failure_by (relocation_numbers bytes.now page_rva walk.now) (directory_refused
        (step_of relocation_reported (first_in (first_relocation page_rva) bytes.now walk.now))) }
{
    let mut after = *walk;
    match directory_refused(next_relocation(bytes, page_rva, &mut after)) {
        Some(number) => {
            let numbers = relocation_numbers(bytes, page_rva, walk, number);
            Some(failure_with(number, numbers))
        }
        None => None,
    }
}
