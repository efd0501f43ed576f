//! The memory of a dump as runs in its file: `runs` makes them. Steps and walks take them as pieces, by binary search, and the image
//! of a module whose memory the dump has is borrowed from them.

ghost use Rattle.std.specs.Prelude.{◌≡◌, ◌+◌, ◌-◌, ◌<◌, ◌∷◌, [], IfErr, IfOk, IsTrue, length, min};
ghost use Rattle.std.specs.List.{find};
ghost use Rattle.std.specs.Option.{option_map};
ghost use Rattle.pe_core.specs.Bytes.{holds, range};
ghost use Rattle.pe_core.specs.Refusals.{Memory, ReturnsUnlessMemory, Short, kind_of, outcome};
ghost use Rattle.pe_lookup.specs.AddressRanges.{AreAscending};
ghost use Rattle.pe_frame.specs.MemoryLists.{are_inside, lists_byte};
ghost use Rattle.pe_stacks.specs.MemoryRuns.{AreRuns, bytes_at};

use crate::range_index::Stated;
use crate::runs::put_runs;
use pe_core::{Result, index_of};
use pe_frame::{MemoryList, MemoryPiece};
use pe_lookup::first_with;
use std::alloc::Allocator;

/// The memory of a dump: runs of addresses whose bytes follow one another in its file too, in ascending order.
#[derive(Drop)]
pub struct MemoryRuns<'a, A: Allocator + Drop> {
    bytes: &'a [u8],
    runs: Vec<MemoryPiece, A>,
    ghost ascending: { AreAscending (λ p. p.start) (λ p. p.length) runs.items },
    ghost inside: { IsTrue (are_inside bytes.now runs.items) },
}

impl<'a, A: Allocator + Copy + Drop> MemoryRuns<'a, A> {
    /// The runs of these pieces of the bytes of a file, in any order: an address is that of the first piece that has it. Errors:
    /// `Short` if a piece does not lie in the bytes; `Memory`, which it is not where there are no pieces.
    pub fn new(alloc: A, bytes: &'a [u8], pieces: &[MemoryPiece]) -> Result<MemoryRuns<'a, A>>
        ensures bytes { IfOk result (λ m. m.bytes.now ≡ bytes.entry.now) }
        ensures runs { IfOk result (λ m. AreRuns pieces.now m.runs.items) }
        ensures refused { ReturnsUnlessMemory {Y = Unit {0}} (λ m. tt) result
            (outcome ((are_inside bytes.entry.now pieces.now, Short) ∷ []) tt) }
        ensures memory { IfErr result (λ e. kind_of e ≡ Memory → 0 < length pieces.now) }
    {
        MemoryList::new(bytes, pieces)?;
        let entries = index_of(alloc, &Stated, pieces)?;
        let mut runs = Vec::new(alloc);
        runs.resize(entries.len(), MemoryPiece::default())?;
        let count = put_runs(pieces, &entries, &mut runs);
        runs.truncate(count);
        Ok(MemoryRuns { bytes, runs })
    }

    /// The runs, as walks take them with the bytes of the file as their memory.
    pub fn pieces(&self) -> &[MemoryPiece]
        ensures { result.now ≡ self.now.runs.items }
    {
        &self.runs
    }

    /// The run that has an address.
    fn run_at(&self, address: u64) -> Option<&MemoryPiece>
        ensures { option_map (λ p. p.now) result ≡ find (lists_byte address) self.now.runs.items }
    {
        first_with(&self.runs, true, address)
    }

    /// The bytes from an address on, at most so many: they end at the first address of which the dump has no byte, or where the file
    /// has it elsewhere. None where the dump has no byte at the address.
    pub fn bytes_at(&self, address: u64, most: u64) -> &'a [u8]
        ensures { result.now ≡ bytes_at self.now.bytes.now self.now.runs.items address most }
    {
        match self.run_at(address) {
            Some(run) => bytes_of(self.bytes, run, address, most),
            None => &[],
        }
    }
}

/// The bytes of a run from an address that it has on, at most so many.
fn bytes_of<'a>(bytes: &'a [u8], run: &MemoryPiece, address: u64, most: u64) -> &'a [u8]
    requires has { IsTrue (lists_byte address run.now) }
    requires inside { IsTrue (holds bytes.now run.now.offset run.now.length) }
    ensures { result.now ≡ range bytes.entry.now (run.now.offset + (address - run.now.start))
        (min most (run.now.length - (address - run.now.start))) }
{
    let skipped = address - run.start;
    let offset = run.offset + skipped;
    let length = most.min(run.length - skipped);
    &bytes[offset as usize..(offset + length) as usize]
}
