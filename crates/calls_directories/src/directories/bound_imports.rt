//! Bound imports: DLLs whose addresses the linker, or a tool after it, wrote into the import address table. They are valid as
//! long as each DLL has the time stamp that stands here. Each is followed by the DLLs that it forwards to.
//! https://learn.microsoft.com/windows/win32/debug/pe-format#optional-header-data-directories-image-only

ghost use Rattle.std.specs.Prelude.{◌≡◌, ◌≤◌, length};
ghost use Rattle.std.specs.Result.{ForOk};
ghost use Rattle.pe_directories.specs.DirectoryRefusals.{directory_answer};
ghost use Rattle.calls_directories.specs.BoundImports.{after_forwarder, bound_imports_at, bound_name_at, first_bound, next_forwarder};
ghost use Rattle.calls_base.specs.Directories.{left_after, step_of};
ghost use Rattle.calls_base.specs.Ranges.{bytes_at};
ghost use Rattle.calls_base.specs.DirectoryResults.{directory_number};
ghost use Rattle.calls_directories.specs.DirectoryRuns.{StepsBoundImports, StepsForwarders};
ghost use Rattle.calls_base.specs.Lists.{Numbered};

use calls_base::directories::{Result, range_left};
use calls_base::image::{BOUND_IMPORT_TABLE, directory, is_absent};
use calls_base::lists::Steps;
use calls_base::ranges::{NO_BYTES, Range, slice_of};
use calls_base::results::number_of_directory;
use calls_base::text_runs::{Run, Texts};
use calls_base::view::View;
use calls_base::walks::next_entry;
use pe_core::{TableEntry, read_u16};
use pe_directories::{BoundForwarder as Forwarder, BoundImportDirectory, DirectoryError};

/// The size of an entry in bytes, and of one of its forwarders.
const SIZE_OF_ENTRY: usize = 8;

/// A DLL that the image is bound to.
#[repr(C)]
#[derive(Clone, Copy)]
pub struct BoundImport {
    /// Its name in UTF-8, without its final zero.
    pub name: Range,
    /// The DLLs that it forwards to, 8 bytes each; a walk through them.
    pub forwarders: Range,
    /// The time stamp of the DLL.
    pub time_date_stamp: u32,
    /// 0.
    pub spare: u32,
}

/// A DLL that another one forwards to.
#[repr(C)]
#[derive(Clone, Copy)]
pub struct BoundForwarder {
    /// Its name in UTF-8, without its final zero.
    pub name: Range,
    /// The time stamp of the DLL.
    pub time_date_stamp: u32,
    /// 0.
    pub spare: u32,
}

/// The directory of bound imports, if it is not absent: its address is a file offset.
pub fn bound_imports_at(view: &View) -> Result<Option<Range>>
    ensures { directory_answer (λ r. r) result ≡ bound_imports_at view.now.bytes.now
        view.now.image.now }
{
    let directory = directory(view.image, BOUND_IMPORT_TABLE);
    if is_absent(directory) {
        return Ok(None);
    }
    let table = BoundImportDirectory::parse(view.bytes, directory)?;
    Ok(Some(Range {
        offset: u64::from(directory.virtual_address),
        length: table.bytes.len() as u64,
    }))
}

/// The bytes of a directory of bound imports, which have the names, and how its texts are looked up.
#[derive(Clone, Copy)]
pub struct BoundNames<'a, 'b> {
    pub bytes: &'a [u8],
    pub table: Range,
    texts: Texts<'b>,
    ghost same: { ForOk (bytes_at bytes.now table) (λ t. t ≡ texts.bytes.now) },
}

impl<'a, 'b> BoundNames<'a, 'b> {
    /// Names that are read by themselves.
    pub fn alone(bytes: &'a [u8], table: Range) -> BoundNames<'a, 'a>
        ensures bytes { result.bytes.now ≡ bytes.entry.now }
        ensures table { result.table ≡ table }
    {
        let texts = match slice_of(bytes, &table) {
            Ok(strings) => Texts::alone(strings),
            // Each name is refused.
            Err(_) => Texts::alone(&[]),
        };
        BoundNames {
            bytes,
            table,
            texts,
        }
    }

    /// Names of which those at the offsets that a room has as starts are read together.
    pub fn together(bytes: &'b [u8], table: Range, room: &'b mut [Run]) -> BoundNames<'b, 'b>
        ensures bytes { result.bytes.now ≡ bytes.entry.now }
        ensures table { result.table ≡ table }
    {
        let texts = match slice_of(bytes, &table) {
            Ok(strings) => Texts::together(strings, room),
            Err(_) => Texts::alone(&[]),
        };
        BoundNames {
            bytes,
            table,
            texts,
        }
    }

    /// The range of the name at an offset from the start of the directory.
    #[tactic(auto, unfolding(pe_directories::specs::BoundImports::bound_name))]
    fn range_at(&self, offset: u16) -> Result<Range>
        ensures { directory_answer (λ r. r) result
            ≡ bound_name_at self.now.bytes.now self.now.table offset }
    {
        slice_of(self.bytes, &self.table)?;
        match self.texts.at(usize::from(offset)) {
            Some(name) => Ok(Range {
                offset: self.table.offset + u64::from(offset),
                length: name.len() as u64,
            }),
            None => Err(DirectoryError::BoundImportName(offset)),
        }
    }
}

/// The next DLL of a walk. It is over after an error.
pub fn next_bound_import(
    names: &BoundNames<'_, '_>,
    walk: &mut Range,
) -> Result<Option<BoundImport>>
    ensures import { directory_answer (λ x. x) result
        ≡ step_of (λ x. x) (first_bound names.now.bytes.now names.now.table walk.old) }
    ensures walk { walk.new ≡ left_after walk.old
        (first_bound names.now.bytes.now names.now.table walk.old) }
{
    let range = *walk;
    *walk = NO_BYTES;
    let directory = BoundImportDirectory {
        bytes: slice_of(names.bytes, &range)?,
    };
    let mut imports = directory.imports();
    let Some(import) = imports.next() else {
        *walk = range;
        return Ok(None);
    };
    let import = import?;
    let name = names.range_at(import.name)?;
    *walk = range_left(range, imports.rest());
    Ok(Some(BoundImport {
        name,
        forwarders: Range {
            offset: range.offset + SIZE_OF_ENTRY as u64,
            length: import.forwarder_bytes.len() as u64,
        },
        time_date_stamp: import.time_date_stamp,
        spare: 0,
    }))
}

/// The next forwarder of a walk. It is over after an error.
pub fn next_forwarder(
    names: &BoundNames<'_, '_>,
    walk: &mut Range,
) -> Result<Option<BoundForwarder>>
    ensures forwarder { directory_answer (λ x. x) result
        ≡ next_forwarder names.now.bytes.now names.now.table walk.old }
    ensures walk { walk.new ≡ after_forwarder names.now.bytes.now names.now.table walk.old }
{
    let Some(left) = next_entry(names.bytes, walk, SIZE_OF_ENTRY)? else {
        return Ok(None);
    };
    let after = *walk;
    *walk = NO_BYTES;
    let forwarder = Forwarder::at(left, 0);
    let name = names.range_at(forwarder.name)?;
    *walk = after;
    Ok(Some(BoundForwarder {
        name,
        time_date_stamp: forwarder.time_date_stamp,
        spare: 0,
    }))
}

/// Writes the offsets of the names of the next DLLs, from the start of the directory, to a room, as starts, of as many as it has room
/// for, and returns how many they are.
pub fn put_bound_names(bytes: &[u8], walk: &Range, room: &mut [Run]) -> usize
    ensures { result ≤ length room.new }
{
    let mut count = 0;
    let Ok(left) = slice_of(bytes, walk) else {
        return count;
    };
    let mut imports = BoundImportDirectory { bytes: left }.imports();
    for i in 0..room.len() {
        let Some(Ok(import)) = imports.next() else {
            break;
        };
        room[i] = Run::at(usize::from(import.name));
        count = i + 1;
    }
    count
}

/// The same of the next forwarders.
pub fn put_bound_forwarders(bytes: &[u8], walk: &Range, room: &mut [Run]) -> usize
    ensures { result ≤ length room.new }
{
    let Ok(left) = slice_of(bytes, walk) else {
        return 0;
    };
    let count = room.len().min(left.len() / SIZE_OF_ENTRY);
    for i in 0..count {
        room[i] = Run::at(usize::from(read_u16(left, SIZE_OF_ENTRY * i + 4)));
    }
    count
}

impl<'a, 'b> Steps<Range, BoundImport> for BoundNames<'a, 'b> {
    ghost steps = { λ s. Numbered directory_number (StepsBoundImports s.bytes.now s.table) };

    fn step(&self, walk: &mut Range) -> std::result::Result<Option<BoundImport>, u32> {
        match next_bound_import(self, walk) {
            Ok(import) => Ok(import),
            Err(error) => Err(number_of_directory(&error)),
        }
    }
}

impl<'a, 'b> Steps<Range, BoundForwarder> for BoundNames<'a, 'b> {
    ghost steps = { λ s. Numbered directory_number (StepsForwarders s.bytes.now s.table) };

    fn step(&self, walk: &mut Range) -> std::result::Result<Option<BoundForwarder>, u32> {
        match next_forwarder(self, walk) {
            Ok(forwarder) => Ok(forwarder),
            Err(error) => Err(number_of_directory(&error)),
        }
    }
}
