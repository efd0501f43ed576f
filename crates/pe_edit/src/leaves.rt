//! The list of resources that a section is written of: values, or records over an array of bytes.

ghost use Rattle.std.specs.Prelude.{◌≡◌, ◌<◌, ◌≤◌, drop, length, map, slice_index_or, take};
ghost use Rattle.pe_edit.specs.Views.{leaf_view, leaf_views, no_leaf, record_leaf};

use crate::leaf::Resource;
use crate::record::ResourceRecord;

/// Resources, in the order in which they are written.
#[derive(Clone, Copy)]
pub enum Leaves<'a> {
    /// As values.
    Values(&'a [Resource<'a>]),
    /// As records, and the array that has their names and contents. A range that does not lie in it has no bytes.
    Records(&'a [ResourceRecord], &'a [u8]),
}

/// The value with an index.
#[tactic(auto, using(crate::proofs::LeafLists::mapped_at))]
fn value_at<'a>(values: &[Resource<'a>], index: usize) -> Resource<'a>
    requires { index < length values.now }
    ensures { leaf_view result ≡ slice_index_or (map leaf_view values.now) index no_leaf }
{
    values[index]
}

/// The resource of the record with an index.
#[tactic(auto, using(crate::proofs::LeafLists::record_mapped))]
fn resource_at<'a>(records: &[ResourceRecord], data: &'a [u8], index: usize) -> Resource<'a>
    requires { index < length records.now }
    ensures { leaf_view result
        ≡ slice_index_or (map (record_leaf data.entry.now) records.now) index no_leaf }
{
    records[index].resource(data)
}

impl<'a> Leaves<'a> {
    /// How many there are.
    #[tactic(auto, using(crate::proofs::LeafLists::count_of_values, crate::proofs::LeafLists::count_of_records))]
    pub fn len(&self) -> usize
        ensures { result ≡ length (leaf_views self.now) }
    {
        match *self {
            Leaves::Values(values) => values.len(),
            Leaves::Records(records, _) => records.len(),
        }
    }

    /// The resource with an index.
    #[tactic(auto, using(crate::proofs::LeafLists::count_of_values, crate::proofs::LeafLists::count_of_records, crate::proofs::LeafLists::views_of))]
    pub(crate) fn at(&self, index: usize) -> Resource<'a>
        requires { index < length (leaf_views self.now) }
        ensures { leaf_view result ≡ slice_index_or (leaf_views self.now) index no_leaf }
    {
        match *self {
            Leaves::Values(values) => value_at(values, index),
            Leaves::Records(records, data) => resource_at(records, data, index),
        }
    }

    /// Those from an index on.
    #[tactic(auto, using(crate::proofs::LeafLists::count_of_values, crate::proofs::LeafLists::count_of_records, crate::proofs::LeafLists::values_after, crate::proofs::LeafLists::records_after))]
    pub(crate) fn after(&self, start: usize) -> Leaves<'a>
        requires { start ≤ length (leaf_views self.now) }
        ensures { leaf_views result ≡ drop start (leaf_views self.now) }
    {
        match *self {
            Leaves::Values(values) => Leaves::Values(values.split_at(start).1),
            Leaves::Records(records, data) => Leaves::Records(records.split_at(start).1, data),
        }
    }

    /// The first `n`.
    #[tactic(auto, using(crate::proofs::LeafLists::count_of_values, crate::proofs::LeafLists::count_of_records, crate::proofs::LeafLists::values_first, crate::proofs::LeafLists::records_first))]
    pub(crate) fn first(&self, n: usize) -> Leaves<'a>
        requires { n ≤ length (leaf_views self.now) }
        ensures { leaf_views result ≡ take n (leaf_views self.now) }
    {
        match *self {
            Leaves::Values(values) => Leaves::Values(values.split_at(n).0),
            Leaves::Records(records, data) => Leaves::Records(records.split_at(n).0, data),
        }
    }
}
