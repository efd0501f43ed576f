//! The tables of code to which a load configuration leads: the exception handlers of x86, the functions that may be called
//! indirectly, the entries of the import address table whose address is taken, the targets of `longjmp` and the
//! continuations of exceptions. An entry is an RVA of 4 bytes, and flags. One walk steps over the entries of a table.
//! https://learn.microsoft.com/windows/win32/secbp/pe-metadata

ghost use Rattle.std.specs.Prelude.{◌≡◌, ◌+◌, ◌<◌, ◌^◌};
ghost use Rattle.pe_directories.specs.DirectoryRefusals.{directory_answer};
ghost use Rattle.pe_directories.specs.GuardTables.{guarded_view};
ghost use Rattle.calls_base.specs.Directories.{step_of};
ghost use Rattle.calls_directories.specs.GuardTables.{entries_after, entries_of, entry_reported, first_entry_in, guard_table_at, place_of, StepsGuardEntries};
ghost use Rattle.calls_base.specs.Views.{may_map};
ghost use Rattle.calls_base.specs.DirectoryResults.{directory_number};
ghost use Rattle.calls_base.specs.Lists.{Numbered};

use calls_base::directories::{Result, image_at, offset_of_va, range_left};
use calls_base::image::{LOAD_CONFIG_TABLE, directory, is_absent};
use calls_base::lists::Steps;
use calls_base::ranges::{NO_BYTES, Range, slice_of};
use calls_base::results::number_of_directory;
use calls_base::view::View;
use pe_directories::{GuardEntry as Entry, GuardTable, LoadConfig};

/// A walk over the entries of a table.
#[repr(C)]
#[derive(Clone, Copy)]
pub struct GuardEntries {
    /// From the next entry to the end of the bytes.
    pub entries: Range,
    /// The number of entries that are left.
    pub count: u64,
    /// How many bytes of flags an entry has after its RVA.
    pub flag_size: u32,
    /// 0.
    pub spare: u32,
}

/// An entry of a table.
#[repr(C)]
#[derive(Clone, Copy)]
pub struct GuardEntry {
    /// The flags that follow the RVA.
    pub flag_bytes: Range,
    /// The RVA of the function, handler, target or entry.
    pub rva: u32,
    /// The first byte of flags, `IMAGE_GUARD_FLAG_*`. 0 where there is none.
    pub flags: u32,
}

/// A walk that is over.
const NO_ENTRIES: GuardEntries = GuardEntries {
    entries: NO_BYTES,
    count: 0,
    flag_size: 0,
    spare: 0,
};

/// Where a table is: its virtual address, how many entries it has, and how many bytes of flags each of these has.
#[derive(Clone, Copy)]
pub struct Place {
    va: Option<u64>,
    count: Option<u64>,
    flag_size: u8,
}

/// Where the table with a number is. No table has another number than these.
fn place_of(table: u32, config: &LoadConfig) -> Place
    ensures { result ≡ place_of table config.now }
{
    let tables = config.guard_tables;
    let (va, count) = match table {
        0 => (config.se_handler_table, config.se_handler_count),
        1 => (
            config.guard_cf_function_table,
            config.guard_cf_function_count,
        ),
        2 => (
            tables.address_taken_iat_entry_table,
            tables.address_taken_iat_entry_count,
        ),
        3 => (tables.long_jump_target_table, tables.long_jump_target_count),
        4 => (tables.eh_continuation_table, tables.eh_continuation_count),
        _ => (None, None),
    };
    // Exception handlers have no flags.
    let flag_size = if table == 0 || table > 4 {
        0
    } else {
        config.flag_size()
    };
    Place {
        va,
        count,
        flag_size,
    }
}

/// A walk over the table that is there, if it has an address and entries.
fn entries_of(view: &View, place: Place) -> Result<Option<GuardEntries>>
    ensures { directory_answer (λ w. w) result
        ≡ entries_of view.now.bytes.now view.now.image.now (may_map view.now) place }
{
    let va = place.va.unwrap_or(0);
    let count = place.count.unwrap_or(0);
    if va == 0 || count == 0 {
        return Ok(None);
    }
    let offset = offset_of_va(view, va)?;
    Ok(Some(GuardEntries {
        entries: Range {
            offset: offset as u64,
            length: view.bytes.len().saturating_sub(offset) as u64,
        },
        count,
        flag_size: u32::from(place.flag_size),
        spare: 0,
    }))
}

pub fn guard_table_at(view: &View, table: u32) -> Result<Option<GuardEntries>>
    ensures { directory_answer (λ w. w) result
        ≡ guard_table_at table view.now.bytes.now view.now.image.now (may_map view.now) }
{
    let directory = directory(view.image, LOAD_CONFIG_TABLE);
    if is_absent(directory) {
        return Ok(None);
    }
    let config = LoadConfig::parse(&image_at(view, directory), directory)?;
    entries_of(view, place_of(table, &config))
}

/// The first entry of a walk, as callers get it.
fn entry_reported(walk: &GuardEntries, entry: &Entry<'_>) -> GuardEntry
    requires { walk.now.entries.offset + 4 < 2 ^ 64 }
    ensures { result ≡ entry_reported walk.now (guarded_view entry.now) }
{
    let flags = match entry.flags.first() {
        Some(flags) => u32::from(*flags),
        None => 0,
    };
    GuardEntry {
        flag_bytes: Range {
            offset: walk.entries.offset + 4,
            length: entry.flags.len() as u64,
        },
        rva: entry.rva,
        flags,
    }
}

/// The next entry of a walk. It is over after an error.
#[tactic(auto, using(crate::proofs::GuardLists::first_taken))]
pub fn next_entry(bytes: &[u8], walk: &mut GuardEntries) -> Result<Option<GuardEntry>>
    ensures entry { directory_answer (λ x. x) result
        ≡ step_of (entry_reported walk.old) (first_entry_in bytes.now walk.old) }
    ensures walk { walk.new ≡ entries_after walk.old (first_entry_in bytes.now walk.old) }
{
    let before = *walk;
    *walk = NO_ENTRIES;
    let left = slice_of(bytes, &before.entries)?;
    let mut table = GuardTable::new(left, before.count, before.flag_size);
    let Some(entry) = table.next() else {
        *walk = before;
        return Ok(None);
    };
    let entry = entry?;
    *walk = GuardEntries {
        entries: range_left(before.entries, table.rest()),
        count: before.count - 1,
        ..before
    };
    Ok(Some(entry_reported(&before, &entry)))
}

/// Steps over the entries of a table.
#[derive(Clone, Copy)]
pub struct Entries<'a> {
    pub bytes: &'a [u8],
}

impl<'a> Steps<GuardEntries, GuardEntry> for Entries<'a> {
    ghost steps = { λ s. Numbered directory_number (StepsGuardEntries s.bytes.now) };

    fn step(&self, walk: &mut GuardEntries) -> std::result::Result<Option<GuardEntry>, u32> {
        match next_entry(self.bytes, walk) {
            Ok(entry) => Ok(entry),
            Err(error) => Err(number_of_directory(&error)),
        }
    }
}
