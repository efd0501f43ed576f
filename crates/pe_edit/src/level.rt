//! The three levels of the tree. A directory of the first level has an entry for each type, one of the second an entry
//! for each resource of a type, one of the third an entry for each language of a resource. Leaves that share an entry are
//! neighbours, a run.

ghost use Rattle.std.specs.Prelude.{◌≡◌, ◌*◌, ◌<◌, ◌≤◌, length};
ghost use Rattle.pe_edit.specs.Levels.{IsRunAt, above, alike, key_of_run, measure_of, runs_of, size_of_run};
ghost use Rattle.pe_edit.specs.Runs.{run_length};
ghost use Rattle.pe_edit.specs.Views.{key_view, leaf_view, leaf_views};
ghost use Rattle.pe_edit.specs.Written.{Each, NamesFit};

use crate::leaf::{Resource, ResourceKey};
use crate::leaves::Leaves;

/// The size of a directory without its entries.
pub const SIZE_OF_DIRECTORY: usize = 16;

/// The size of an entry of a directory.
pub const SIZE_OF_ENTRY: usize = 8;

/// The size of a data entry.
pub const SIZE_OF_DATA_ENTRY: usize = 16;

/// A level of the tree, by what the entries of its directories are.
#[derive(Clone, Copy)]
pub enum Level {
    Types,
    Names,
    Languages,
}

/// What the entries of a directory come to.
#[derive(Clone, Copy)]
pub struct Measure {
    /// How many entries there are.
    pub entries: usize,
    /// How many of them have a name.
    pub named: usize,
    /// The size of these names in bytes.
    pub names_size: usize,
}

impl Level {
    /// The level above; the first has none, and is its own.
    pub fn above(self) -> Level
        ensures { result ≡ above self }
    {
        match self {
            Level::Languages => Level::Names,
            Level::Names | Level::Types => Level::Types,
        }
    }

    /// Whether two leaves share an entry.
    fn is_alike(self, first: &Resource<'_>, second: &Resource<'_>) -> bool
        ensures { result ≡ alike self (leaf_view first.now) (leaf_view second.now) }
    {
        match self {
            Level::Types => first.resource_type.is_same(&second.resource_type),
            Level::Names => {
                first.resource_type.is_same(&second.resource_type)
                    && first.name.is_same(&second.name)
            }
            Level::Languages => false,
        }
    }

    /// How many of the first leaves share an entry.
    #[tactic(auto, using(crate::proofs::RunsAt::run_all, crate::proofs::RunsAt::run_end, crate::proofs::RunsAt::run_more))]
    fn first_run(self, leaves: &Leaves<'_>) -> usize
        requires { 0 < length (leaf_views leaves.now) }
        ensures { result ≡ run_length (alike self) (leaf_views leaves.now) }
    {
        let count = leaves.len();
        let mut n = 1;
        while n < count && self.is_alike(&leaves.at(n - 1), &leaves.at(n)) {
            n += 1;
        }
        n
    }

    /// The leaves from an index on that share an entry.
    #[tactic(auto, using(crate::proofs::RunsAt::is_run_at, crate::proofs::RunsAt::run_within))]
    pub fn run_from<'a>(self, leaves: &Leaves<'a>, start: usize) -> Leaves<'a>
        requires { start < length (leaf_views leaves.now) }
        ensures { IsRunAt self (leaf_views leaves.now) start (leaf_views result) }
    {
        let left = leaves.after(start);
        left.first(self.first_run(&left))
    }

    /// The key of the entry that these leaves share.
    pub fn key<'a>(self, run: &Leaves<'a>) -> ResourceKey<'a>
        requires { 0 < length (leaf_views run.now) }
        ensures { key_view result ≡ key_of_run self (leaf_views run.now) }
    {
        let leaf = run.at(0);
        match self {
            Level::Types => leaf.resource_type,
            Level::Names => leaf.name,
            Level::Languages => ResourceKey::Id(leaf.language),
        }
    }

    /// The size of the part that the entry of these leaves leads to: a directory, or at the last level a data entry.
    #[tactic(auto, using(crate::proofs::Entries::size_of_type, crate::proofs::Entries::size_of_resource, crate::proofs::Entries::size_of_language))]
    pub fn part_size(self, run: &Leaves<'_>) -> usize
        requires some { 0 < length (leaf_views run.now) }
        requires few { length (leaf_views run.now) < 65536 }
        requires fits { Each NamesFit (leaf_views run.now) }
        ensures { result ≡ size_of_run self (leaf_views run.now) }
    {
        match self {
            Level::Types => SIZE_OF_DIRECTORY + SIZE_OF_ENTRY * Level::Names.measure(run).entries,
            Level::Names => SIZE_OF_DIRECTORY + SIZE_OF_ENTRY * run.len(),
            Level::Languages => SIZE_OF_DATA_ENTRY,
        }
    }

    /// What the entries of these leaves come to.
    #[tactic(auto, using(crate::proofs::RunsAt::run_key_fits))]
    pub fn measure(self, leaves: &Leaves<'_>) -> Measure
        requires few { length (leaf_views leaves.now) < 65536 }
        requires fits { Each NamesFit (leaf_views leaves.now) }
        ensures value { result ≡ measure_of self (leaf_views leaves.now) }
        ensures few { result.entries ≤ length (leaf_views leaves.now) }
        ensures some { result.named ≤ result.entries }
        ensures small { result.names_size ≤ 131074 * length (leaf_views leaves.now) }
    {
        let mut sum = Measure {
            entries: 0,
            named: 0,
            names_size: 0,
        };
        let count = leaves.len();
        let mut start = 0;
        while start < count {
            let run = self.run_from(leaves, start);
            let key = self.key(&run);
            sum = Measure {
                entries: sum.entries + 1,
                named: sum.named + key.named(),
                names_size: sum.names_size + key.name_size(),
            };
            let size = run.len();
            start += size;
        }
        sum
    }
}
