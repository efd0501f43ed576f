//! Writes directories. A directory is a head of 16 bytes with the numbers of its entries, and its entries; an entry is an
//! id or the offset of a name, and the offset of a directory or of a data entry. See Microsoft's
//! [resource directory table](https://learn.microsoft.com/windows/win32/debug/pe-format#resource-directory-table). Offsets
//! count from the start of the section.

ghost use Rattle.std.specs.Prelude.{◌≡◌, ◌+◌, ◌*◌, ◌<◌, ◌≤◌, ◌++◌, length};
ghost use Rattle.pe_core.specs.Bytes.{bytes_of, splice};
ghost use Rattle.pe_edit.specs.Levels.{AllPartsFit, PartsFit, above, after_directory, after_entries, directories_at, key_at, names_total, parts_total, runs_of, size_at};
ghost use Rattle.pe_edit.specs.Views.{key_view, leaf_views};
ghost use Rattle.pe_edit.specs.Written.{Each, NamesFit, directory_to, entries_to, key_number, name_size};

use crate::leaf::ResourceKey;
use crate::leaves::Leaves;
use crate::level::{Level, SIZE_OF_DIRECTORY, SIZE_OF_ENTRY};
use pe_core::{set_u16, set_u32, set_zeros};

/// Bit 31 of an entry's first number: it has a name, at the offset in the low bits. Bit 31 of the second: it leads to a
/// directory.
pub const HIGH_BIT: usize = 0x8000_0000;

/// Where directories are written next, and what their next entry leads to.
#[derive(Clone, Copy)]
pub struct Cursor {
    /// Where the next part of a directory is written.
    pub end: usize,
    /// The offset of the next name.
    pub name: usize,
    /// The offset of the next part that an entry leads to, with bit 31 if it is a directory.
    pub part: usize,
}

/// Writes an entry.
#[tactic(auto, using(crate::proofs::Entries::entry_parts))]
fn set_entry(out: &mut [u8], at: usize, number: u32, part: u32)
    requires { at + 8 ≤ length out.old }
    ensures { out.new ≡ splice out.old at (bytes_of 4 number ++ bytes_of 4 part) }
{
    set_u32(out, at, number);
    set_u32(out, at + 4, part);
}

/// The first number of an entry: the id, or the offset of the name with bit 31.
fn key_number(key: &ResourceKey<'_>, name: usize) -> u32
    requires { name + name_size (key_view key.now) < 2147483648 }
    ensures { result ≡ key_number name (key_view key.now) }
{
    match *key {
        ResourceKey::Id(id) => id as u32,
        ResourceKey::Name(_) => (HIGH_BIT + name) as u32,
    }
}

/// Writes the entries of a directory. Returns what follows them.
fn set_entries(out: &mut [u8], level: Level, leaves: &Leaves<'_>, at: Cursor) -> Cursor
    requires room { at.end + 8 * length (runs_of level (leaf_views leaves.now)) ≤ length out.old }
    requires few { length (leaf_views leaves.now) < 65536 }
    requires fits { Each NamesFit (leaf_views leaves.now) }
    requires parts { PartsFit level at (runs_of level (leaf_views leaves.now)) }
    ensures after { out.new ≡ splice out.old at.end (entries_to
        (key_at level) (size_at level) at.name at.part (runs_of level (leaf_views leaves.now))) }
    ensures next { result ≡ after_entries level at (runs_of level (leaf_views leaves.now)) }
{
    let count = leaves.len();
    let mut now = at;
    let mut start = 0;
    while start < count {
        let run = level.run_from(leaves, start);
        let key = level.key(&run);
        set_entry(out, now.end, key_number(&key, now.name), now.part as u32);
        now = Cursor {
            end: now.end + SIZE_OF_ENTRY,
            name: now.name + key.name_size(),
            part: now.part + level.part_size(&run),
        };
        let size = run.len();
        start += size;
    }
    now
}

/// Writes a directory with its entries. Returns what follows it.
#[tactic(auto, using(crate::proofs::DirectoryLoops::directory_parts))]
pub fn set_directory(out: &mut [u8], level: Level, leaves: &Leaves<'_>, at: Cursor) -> Cursor
    requires room { at.end + (16 + 8 * length (runs_of level (leaf_views leaves.now))) ≤ length out.old }
    requires few { length (leaf_views leaves.now) < 65536 }
    requires fits { Each NamesFit (leaf_views leaves.now) }
    requires parts { PartsFit level at (runs_of level (leaf_views leaves.now)) }
    ensures after { out.new ≡ splice out.old at.end (directory_to
        (key_at level) (size_at level) at.name at.part (runs_of level (leaf_views leaves.now))) }
    ensures next { result ≡ after_directory level at (runs_of level (leaf_views leaves.now)) }
{
    let measure = level.measure(leaves);
    set_zeros(out, at.end, 12);
    set_u16(out, at.end + 12, measure.named as u16);
    set_u16(out, at.end + 14, (measure.entries - measure.named) as u16);
    let entries = Cursor {
        end: at.end + SIZE_OF_DIRECTORY,
        name: at.name,
        part: at.part,
    };
    set_entries(out, level, leaves, entries)
}

/// Writes the directories of this level, one for each entry of those of the level above.
pub fn set_directories(out: &mut [u8], level: Level, leaves: &Leaves<'_>, at: Cursor)
    requires room { at.end + length (directories_at
        level at.name at.part (runs_of (above level) (leaf_views leaves.now))) ≤ length out.old }
    requires few { length (leaf_views leaves.now) < 65536 }
    requires fits { Each NamesFit (leaf_views leaves.now) }
    requires parts { AllPartsFit level at (runs_of (above level) (leaf_views leaves.now)) }
    ensures { out.new ≡ splice out.old at.end (directories_at
        level at.name at.part (runs_of (above level) (leaf_views leaves.now))) }
{
    let count = leaves.len();
    let mut now = at;
    let mut start = 0;
    while start < count {
        let run = level.above().run_from(leaves, start);
        now = set_directory(out, level, &run, now);
        let size = run.len();
        start += size;
    }
}
