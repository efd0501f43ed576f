//! Exports in a list. Their names mostly lie in one section, and what is exported in another one: a list keeps both.

ghost use Rattle.std.specs.Prelude.{◌≡◌, ◌+◌, ◌*◌, ◌/◌, ◌≤◌, length, Ok};
ghost use Rattle.calls_directories.specs.Exports.{FindsNext, reported_entry, tables_or_short, view_of, AreNear};
ghost use Rattle.calls_base.specs.Views.{map_of};

use crate::names::exports::{Export, Exports, Tables, forwarder_if};
use calls_base::named_view::NamedView;
use calls_base::near_map::{NO_WINDOW, Window, map_near};
use calls_base::ranges::Range;
use pe_core::{DataDirectory, lies_in, read_u32, u16_at, u32_at};

/// The RVAs near the last name, and near what was exported last.
#[derive(Clone, Copy)]
pub struct ExportWindows {
    pub names: Window,
    pub exported: Window,
}

/// No RVA is near.
pub const NO_WINDOWS: ExportWindows = ExportWindows {
    names: NO_WINDOW,
    exported: NO_WINDOW,
};

/// A walk over exports in a list, with its tables.
#[derive(Clone, Copy)]
pub struct NearExports<'a> {
    pub names: NamedView<'a>,
    pub tables: Tables<'a>,
    pub walk: Exports,
    pub windows: ExportWindows,
    ghost tables_same: { tables_or_short names.view.now.bytes.now walk ≡ Ok (view_of tables) },
    ghost near: { AreNear (map_of names.view.now) windows },
}

/// The export of entry `i` of the name table, as a step returns it.
#[inline(always)]
fn near_entry(
    names: &NamedView<'_>,
    tables: &Tables<'_>,
    directory: DataDirectory,
    i: usize,
    windows: &mut ExportWindows,
) -> Option<Export>
    requires entry { 4 * i + 4 ≤ length tables.now.names.now }
    requires near { AreNear (map_of names.now.view.now) windows.old }
    ensures entry { result ≡ reported_entry
        (map_of names.now.view.now) names.now.view.now.bytes.now directory (view_of tables.now) i }
    ensures near { AreNear (map_of names.now.view.now) windows.new }
{
    let name_rva = read_u32(tables.names, 4 * i);
    let offset = map_near(names.view, name_rva, &mut windows.names)?;
    let name = names.text_at(offset)?;
    let ordinal = u16_at(tables.ordinals, 2 * i).ok()?;
    let rva = u32_at(tables.addresses, 4 * usize::from(ordinal)).ok()?;
    let exported = map_near(names.view, rva, &mut windows.exported);
    let is_forwarder = lies_in(directory, rva);
    Some(Export {
        name: Range {
            offset: offset as u64,
            length: name.len() as u64,
        },
        forwarder: forwarder_if(is_forwarder, names, exported),
        offset: exported.unwrap_or(0) as u64,
        rva,
        has_offset: u32::from(exported.is_some()),
        index: u32::from(ordinal),
        is_forwarder: u32::from(is_forwarder),
    })
}

/// The first entry of the name table, from `from` on, that has an export, and the index after it.
#[inline(always)]
pub fn find_near(
    names: &NamedView<'_>,
    tables: &Tables<'_>,
    directory: DataDirectory,
    from: usize,
    windows: &mut ExportWindows,
) -> Option<(Export, u64)>
    requires { AreNear (map_of names.now.view.now) windows.old }
    ensures found { FindsNext (reported_entry (map_of names.now.view.now) names.now.view.now.bytes.now directory (view_of tables.now))
        from (length tables.now.names.now / 4) result }
    ensures near { AreNear (map_of names.now.view.now) windows.new }
{
    for i in from..tables.names.len() / 4 {
        if let Some(export) = near_entry(names, tables, directory, i, windows) {
            return Some((export, i as u64 + 1));
        }
    }
    None
}
