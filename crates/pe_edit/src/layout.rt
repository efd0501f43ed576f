//! Where the parts of a resource section start. Windows demands no order of them; this is that of most linkers: the
//! directories level by level, the data entries, the names, the contents.

ghost use Rattle.std.specs.Prelude.{◌≡◌, ◌+◌, ◌<◌, ◌^◌, length};
ghost use Rattle.pe_edit.specs.Levels.{end_below};
ghost use Rattle.pe_edit.specs.Views.{leaf_views};
ghost use Rattle.pe_edit.specs.Written.{Each, NamesFit, layout_of, padded_length};

use crate::leaves::Leaves;
use crate::level::{Level, SIZE_OF_DATA_ENTRY, SIZE_OF_DIRECTORY, SIZE_OF_ENTRY};
use pe_core::rounded_up;

/// Contents start at a multiple of this many bytes.
pub const UNIT: usize = 8;

/// Offsets of the parts of a section, from its start.
#[derive(Clone, Copy)]
pub struct Layout {
    /// The directories of the types.
    pub types: usize,
    /// The directories of the resources, whose entries are languages.
    pub languages: usize,
    /// The data entries.
    pub entries: usize,
    /// The names of the types.
    pub type_names: usize,
    /// The names of the resources.
    pub names: usize,
    /// The end of the names.
    pub names_end: usize,
    /// The contents.
    pub contents: usize,
}

impl Layout {
    /// Where the parts of the section with these leaves start.
    #[tactic(auto, using(crate::proofs::Layouts::layout_made))]
    pub fn of(leaves: &Leaves<'_>) -> Layout
        requires few { length (leaf_views leaves.now) < 65536 }
        requires fits { Each NamesFit (leaf_views leaves.now) }
        ensures { result ≡ layout_of (leaf_views leaves.now) }
    {
        let count = leaves.len();
        let of_types = Level::Types.measure(leaves);
        let of_names = Level::Names.measure(leaves);
        let types = SIZE_OF_DIRECTORY + SIZE_OF_ENTRY * of_types.entries;
        let languages = types
            + SIZE_OF_DIRECTORY * of_types.entries
            + SIZE_OF_ENTRY * of_names.entries;
        let entries = languages + SIZE_OF_DIRECTORY * of_names.entries + SIZE_OF_ENTRY * count;
        let type_names = entries + SIZE_OF_DATA_ENTRY * count;
        let names = type_names + of_types.names_size;
        let names_end = names + of_names.names_size;
        Layout {
            types,
            languages,
            entries,
            type_names,
            names,
            names_end,
            contents: rounded_up(names_end, UNIT),
        }
    }
}

/// The size of a content of `n` bytes with its zeros.
pub fn padded_length(n: usize) -> usize
    requires { n + 8 < 2 ^ 64 }
    ensures { result ≡ padded_length n }
{
    if n == 0 { UNIT } else { rounded_up(n, UNIT) }
}

/// Where contents end that start at an RVA, if that is below 2^32.
#[tactic(auto, using(crate::proofs::Tests::more_end, crate::proofs::Tests::no_more, crate::proofs::Tests::end_is, crate::proofs::Tests::no_end, crate::proofs::Tests::end_too_large, crate::proofs::Tests::content_too_large))]
pub fn contents_end(start: usize, leaves: &Leaves<'_>) -> Option<usize>
    ensures { result ≡ end_below start (leaf_views leaves.now) }
{
    let count = leaves.len();
    let mut end = start;
    for index in 0..count {
        let size = leaves.at(index).content.len();
        if size >= RVA_LIMIT {
            return None;
        }
        if end >= RVA_LIMIT {
            return None;
        }
        end += padded_length(size);
    }
    if end < RVA_LIMIT { Some(end) } else { None }
}

/// RVAs are below this.
const RVA_LIMIT: usize = 0x1_0000_0000;
