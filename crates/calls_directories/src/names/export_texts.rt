//! The texts of exports, their names and those of forwarders, at many offsets of the bytes. Of a hostile image all may start in one
//! long text: then a list reads them together, in a room of the caller.

ghost use Rattle.std.specs.Prelude.{◌≡◌, ◌+◌, ◌*◌, ◌≤◌, length};
ghost use Rattle.calls_directories.specs.Exports.{AreNear};
ghost use Rattle.calls_base.specs.NearMaps.{IsWindow};
ghost use Rattle.calls_base.specs.Views.{map_of};

use crate::names::exports::{Exports, Tables, tables_of};
use crate::names::near_exports::{ExportWindows, NO_WINDOWS};
use calls_base::near_map::{Window, map_near};
use calls_base::text_runs::{Run, TextCosts, end_of_next};
use calls_base::view::View;
use pe_core::{DataDirectory, lies_in, read_u32, u16_at, u32_at};

/// Where the texts of an export start, if they are mapped.
#[derive(Clone, Copy)]
pub struct TextOffsets {
    name: Option<usize>,
    /// None where the export is no forwarder.
    forwarder: Option<usize>,
}

/// The offset of the text of an entry of the name table, if what it names is a forwarder.
fn forwarder_offset(
    view: &View,
    tables: &Tables<'_>,
    directory: DataDirectory,
    i: usize,
    near: &mut Window,
) -> Option<usize>
    requires index { 4 * i + 4 ≤ length tables.now.names.now }
    requires near { IsWindow (map_of view.now) near.old }
    ensures near { IsWindow (map_of view.now) near.new }
{
    let ordinal = u16_at(tables.ordinals, 2 * i).ok()?;
    let rva = u32_at(tables.addresses, 4 * usize::from(ordinal)).ok()?;
    if lies_in(directory, rva) {
        map_near(view, rva, near)
    } else {
        None
    }
}

/// The offsets of the texts of an entry of the name table.
#[inline(always)]
fn text_offsets(
    view: &View,
    tables: &Tables<'_>,
    directory: DataDirectory,
    i: usize,
    windows: &mut ExportWindows,
) -> TextOffsets
    requires index { 4 * i + 4 ≤ length tables.now.names.now }
    requires near { AreNear (map_of view.now) windows.old }
    ensures { AreNear (map_of view.now) windows.new }
{
    let name = map_near(view, read_u32(tables.names, 4 * i), &mut windows.names);
    let forwarder = forwarder_offset(view, tables, directory, i, &mut windows.exported);
    TextOffsets { name, forwarder }
}

/// Whether the names of the next exports, so many at most, or the texts of forwarders among them have as many bytes as the view, each
/// read by itself and without those that start after a zero, each after the one before: many of them share a text.
#[tactic(auto, using(calls_base::proofs::NearMaps::no_window))]
pub fn texts_cost_much(view: &View, walk: &Exports, most: usize) -> bool {
    let Ok(tables) = tables_of(view.bytes, walk) else {
        return false;
    };
    let mut names = TextCosts::of(view.bytes);
    let mut forwarders = TextCosts::of(view.bytes);
    let mut windows = NO_WINDOWS;
    for i in walk.next as usize..end_of_next(walk.next, most, tables.names.len() / 4) {
        let texts = text_offsets(view, &tables, walk.directory, i, &mut windows);
        if names.are_over(view.bytes, texts.name)
            || forwarders.are_over(view.bytes, texts.forwarder)
        {
            return true;
        }
    }
    false
}

/// Writes an offset to a room in which so many stand, as a start, if there is one and room for it. Returns how many they are then.
fn put_offset(room: &mut [Run], count: usize, offset: Option<usize>) -> usize
    requires { count ≤ length room.old }
    ensures few { result ≤ length room.new }
    ensures same { length room.new ≡ length room.old }
{
    match offset {
        Some(offset) if count < room.len() => {
            room[count] = Run::at(offset);
            count + 1
        }
        _ => count,
    }
}

/// Writes the offsets of the texts of the next exports to a room, as starts, as far as it has room, and returns how many they are.
#[tactic(auto, using(calls_base::proofs::NearMaps::no_window))]
pub fn put_text_offsets(view: &View, walk: &Exports, room: &mut [Run]) -> usize
    ensures { result ≤ length room.new }
{
    let mut count = 0;
    let Ok(tables) = tables_of(view.bytes, walk) else {
        return count;
    };
    let mut windows = NO_WINDOWS;
    for i in walk.next as usize..end_of_next(walk.next, room.len(), tables.names.len() / 4) {
        if count == room.len() {
            break;
        }
        let texts = text_offsets(view, &tables, walk.directory, i, &mut windows);
        count = put_offset(room, count, texts.name);
        count = put_offset(room, count, texts.forwarder);
    }
    count
}
