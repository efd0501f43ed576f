//! Writes the parts of a section that are no directories, each by a loop over the leaves. Offsets count from the start of
//! the section. The caller has checked that everything fits.

ghost use Rattle.std.specs.Prelude.{◌≡◌, ◌+◌, ◌*◌, ◌<◌, ◌≤◌, length};
ghost use Rattle.pe_core.specs.Bytes.{splice};
ghost use Rattle.pe_edit.specs.Levels.{key_at, runs_of};
ghost use Rattle.pe_edit.specs.Views.{key_view, leaf_views};
ghost use Rattle.pe_edit.specs.Written.{Each, NameFits, NamesFit, contents, data_entries, data_entry, name_bytes, names, padded_content, padded_size, total};

use crate::layout::padded_length;
use crate::leaf::ResourceKey;
use crate::leaves::Leaves;
use crate::level::{Level, SIZE_OF_DATA_ENTRY};
use pe_core::{set_slice, set_u16, set_u32, set_zeros};

/// Writes a content and its zeros. Returns where they end.
#[tactic(auto, using(crate::proofs::Contents::padded_parts, crate::proofs::Contents::length_padded, crate::proofs::Reading::padded_more))]
fn set_padded(out: &mut [u8], at: usize, content: &[u8]) -> usize
    requires room { at + length (padded_content content.now) ≤ length out.old }
    ensures after { out.new ≡ splice out.old at (padded_content content.now) }
    ensures end { result ≡ at + length (padded_content content.now) }
{
    let zeros = padded_length(content.len()) - content.len();
    set_slice(out, at, content);
    set_zeros(out, at + content.len(), zeros);
    at + content.len() + zeros
}

/// Writes the contents, each with its zeros.
pub fn set_contents(out: &mut [u8], at: usize, leaves: &Leaves<'_>)
    requires { at + length (contents (leaf_views leaves.now)) ≤ length out.old }
    ensures { out.new ≡ splice out.old at (contents (leaf_views leaves.now)) }
{
    let count = leaves.len();
    let mut end = at;
    for index in 0..count {
        end = set_padded(out, end, leaves.at(index).content);
    }
}

/// Writes a data entry.
#[tactic(auto, using(crate::proofs::Contents::four_numbers))]
fn set_data_entry(out: &mut [u8], at: usize, address: u32, size: u32, code_page: u32)
    requires { at + 16 ≤ length out.old }
    ensures { out.new ≡ splice out.old at (data_entry address size code_page) }
{
    set_u32(out, at, address);
    set_u32(out, at + 4, size);
    set_u32(out, at + 8, code_page);
    set_u32(out, at + 12, 0);
}

/// Writes the data entries; the first content is at the RVA `first`.
pub fn set_data_entries(out: &mut [u8], at: usize, leaves: &Leaves<'_>, first: usize)
    requires room { at + 16 * length (leaf_views leaves.now) ≤ length out.old }
    requires fits { first + total padded_size (leaf_views leaves.now) < 4294967296 }
    ensures { out.new ≡ splice out.old at (data_entries first (leaf_views leaves.now)) }
{
    let count = leaves.len();
    let mut end = at;
    let mut rva = first;
    for index in 0..count {
        let leaf = leaves.at(index);
        let size = leaf.content.len();
        let padded = padded_length(size);
        set_data_entry(out, end, rva as u32, size as u32, leaf.code_page);
        rva += padded;
        end += SIZE_OF_DATA_ENTRY;
    }
}

/// Writes a name: the number of its code units, and they; of an id nothing. Returns where it ends.
#[tactic(auto, using(crate::proofs::Contents::name_parts, crate::proofs::Contents::no_name, crate::proofs::Contents::named_length))]
fn set_name(out: &mut [u8], at: usize, key: ResourceKey<'_>) -> usize
    requires room { at + length (name_bytes (key_view key)) ≤ length out.old }
    requires fits { NameFits (key_view key) }
    ensures after { out.new ≡ splice out.old at (name_bytes (key_view key.entry)) }
    ensures end { result ≡ at + length (name_bytes (key_view key.entry)) }
{
    match key {
        ResourceKey::Id(_) => at,
        ResourceKey::Name(units) => {
            set_u16(out, at, (units.len() / 2) as u16);
            set_slice(out, at + 2, units);
            at + 2 + units.len()
        }
    }
}

/// Writes the names of the types, or those of the resources, one after the other.
#[tactic(auto, using(crate::proofs::Entries::name_room, crate::proofs::RunsAt::run_key_fits))]
pub fn set_names(out: &mut [u8], at: usize, level: Level, leaves: &Leaves<'_>)
    requires room { at
        + length (names (key_at level) (runs_of level (leaf_views leaves.now))) ≤ length out.old }
    requires fits { Each NamesFit (leaf_views leaves.now) }
    ensures { out.new
        ≡ splice out.old at (names (key_at level) (runs_of level (leaf_views leaves.now))) }
{
    let count = leaves.len();
    let mut end = at;
    let mut start = 0;
    while start < count {
        let run = level.run_from(leaves, start);
        end = set_name(out, end, level.key(&run));
        let size = run.len();
        start += size;
    }
}
