//! Why a DLL that is loaded late is refused, or what is imported of it.

ghost use Rattle.std.specs.Prelude.{◌≡◌, ◌==◌, Ok};
ghost use Rattle.calls_failures.specs.StepFailures.{address_numbers, delay_import_numbers, delayed_function_numbers, function_short, hint_at, name_offset, refused_address};
ghost use Rattle.calls_directories.specs.DelayImports.{first_library_in, first_of_walk};
ghost use Rattle.calls_base.specs.Directories.{step_of};
ghost use Rattle.calls_base.specs.FailureNumbers.{directory_refused, failure_by};
ghost use Rattle.calls_base.specs.Views.{map_of};

use calls_base::kept_sections::NO_SECTIONS;
use calls_base::named_view::NamedView;
use calls_base::numbers::{
    DELAY_IMPORT_NAME, ErrorNumbers, Failure, SHORT, UNMAPPED, VA_BELOW_BASE, directory_refused,
    failure_with, needed_at, needed_in, no_numbers, numbers, refused_value, u32_there,
};
use calls_base::ranges::{Range, bytes_there};
use calls_base::view::View;
use calls_directories::directories::delay_imports::{
    DelayedFunctions, address_in, address_offset, lookup_there, next_function_kept,
    next_library_kept,
};
use pe_core::{lookup_size, require_bytes};

/// The size of an entry in bytes.
const SIZE_OF_ENTRY: u64 = 32;

/// Where in an entry the address of its name is.
const NAME_IN_ENTRY: usize = 4;

/// Where in an entry the address of the table of what is imported is.
const TABLE_IN_ENTRY: usize = 16;

/// The size of the hint before a function's name in bytes.
const SIZE_OF_HINT: u64 = 2;

/// The numbers of the failure of an address.
fn address_numbers(base: u64, attributes: u32, address: u64, number: u32) -> ErrorNumbers
    ensures { result ≡ address_numbers base attributes address number }
{
    match number {
        UNMAPPED if attributes % 2 == 1 => refused_value(address),
        UNMAPPED => refused_value(address.saturating_sub(base)),
        VA_BELOW_BASE => refused_value(address),
        _ => no_numbers(),
    }
}

/// The file offset of the name of an entry, if its address has one.
fn name_offset(view: &View, entry: &[u8]) -> Option<usize>
    ensures { result ≡ name_offset (map_of view.now) view.now.image.now.base entry.now }
{
    let address = u64::from(u32_there(entry, NAME_IN_ENTRY));
    match address_offset(view, NO_SECTIONS, u32_there(entry, 0), address) {
        Ok(offset) => Some(offset),
        Err(_) => None,
    }
}

/// The address of an entry that is refused, by the file offset of its name.
fn refused_address(entry: &[u8], name: Option<usize>) -> u32
    ensures { result ≡ refused_address entry.now name }
{
    match name {
        None => u32_there(entry, NAME_IN_ENTRY),
        Some(_) => u32_there(entry, TABLE_IN_ENTRY),
    }
}

/// The numbers of the failure of the DLL that a walk is at.
#[tactic(auto, unfolding(crate::specs::StepFailures::delay_import_numbers))]
pub fn delay_import_numbers(view: &View, walk: &Range, number: u32) -> ErrorNumbers
    ensures { result ≡ delay_import_numbers (map_of view.now) view.now.bytes.now view.now.image.now
        walk.now number }
{
    let entry = bytes_there(view.bytes, walk);
    let name = name_offset(view, entry);
    match number {
        SHORT => needed_in(view.bytes, walk, walk.offset, SIZE_OF_ENTRY),
        DELAY_IMPORT_NAME => numbers(name.unwrap_or(0) as u64, 0, 0),
        _ => {
            let address = u64::from(refused_address(entry, name));
            address_numbers(view.image.base, u32_there(entry, 0), address, number)
        }
    }
}

pub fn delay_import_failure(view: &View, walk: &Range) -> Option<Failure>
    ensures { result ≡ failure_by (delay_import_numbers (map_of view.now) view.now.bytes.now
        view.now.image.now walk.now)
        (directory_refused (step_of (λ x. x) (first_library_in (map_of view.now)
        view.now.bytes.now view.now.image.now walk.now))) }
{
    let mut after = *walk;
    match directory_refused(next_library_kept(&NamedView::alone(view), NO_SECTIONS, &mut after)) {
        Some(number) => Some(failure_with(number, delay_import_numbers(view, walk, number))),
        None => None,
    }
}

/// The file offset of the hint to which such a number leads, 0 where it has none.
fn hint_at(view: &View, attributes: u32, lookup: u64) -> u64
    ensures { result ≡ hint_at (map_of view.now) view.now.image.now attributes lookup }
{
    let address = address_in(view.image.width == 64, attributes, lookup);
    match address_offset(view, NO_SECTIONS, attributes, address) {
        Ok(offset) => offset as u64,
        Err(_) => 0,
    }
}

/// The bytes that are needed of what a walk is at: those of the number, or those of the hint at an offset.
fn function_short(bytes: &[u8], is_64: bool, left: &Range, hint: u64) -> ErrorNumbers
    ensures { result ≡ function_short bytes.now is_64 left.now hint }
{
    let width = lookup_size(is_64);
    match require_bytes(bytes_there(bytes, left), 0, width) {
        Ok(()) => needed_at(hint, SIZE_OF_HINT),
        Err(_) => needed_in(bytes, left, left.offset, width as u64),
    }
}

/// The numbers of the failure of what a walk is at.
#[tactic(auto, unfolding(crate::specs::StepFailures::delayed_function_numbers))]
pub fn delayed_function_numbers(view: &View, walk: &DelayedFunctions, number: u32) -> ErrorNumbers
    ensures { result ≡ delayed_function_numbers (map_of view.now) view.now.bytes.now
        view.now.image.now walk.now number }
{
    let is_64 = view.image.width == 64;
    let lookup = lookup_there(bytes_there(view.bytes, &walk.left), is_64);
    let hint = hint_at(view, walk.attributes, lookup);
    match number {
        SHORT => function_short(view.bytes, is_64, &walk.left, hint),
        DELAY_IMPORT_NAME => numbers(hint.saturating_add(SIZE_OF_HINT), 0, 0),
        _ => {
            let address = address_in(is_64, walk.attributes, lookup);
            address_numbers(view.image.base, walk.attributes, address, number)
        }
    }
}

pub fn delayed_function_failure(view: &View, walk: &DelayedFunctions) -> Option<Failure>
    ensures { result ≡ failure_by (delayed_function_numbers (map_of view.now) view.now.bytes.now
        view.now.image.now walk.now)
        (directory_refused (step_of (λ x. x) (first_of_walk (map_of view.now) view.now.bytes.now
        view.now.image.now walk.now))) }
{
    let mut left = walk.left;
    let found = next_function_kept(
        &NamedView::alone(view),
        NO_SECTIONS,
        walk.attributes,
        &mut left,
    );
    match directory_refused(found) {
        Some(number) => Some(failure_with(number, delayed_function_numbers(view, walk, number))),
        None => None,
    }
}
