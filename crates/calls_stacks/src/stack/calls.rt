//! Walks of a stack, a frame a call, on any machine: the walk of pe_frame, through the modules of a process, from the innermost
//! frame outwards. The caller keeps the walk between two calls, in a record with the registers of its machine, and holds the
//! modules and the memory.

ghost use Rattle.std.specs.Prelude.{◌≡◌, ◌<◌, ◌≤◌, ◌==◌, Ok, if◌then◌else◌, length, nat_lt};
ghost use Rattle.pe_frame.specs.FrameWalks.{Process, state_of, walk_after};
ghost use Rattle.calls_stacks.specs.FrameCalls.{FillsFrames, HandsOutFrames, WalkRecords, end_address, end_error, end_number, marked_if, reached, state_in, way_number, way_of};
ghost use Rattle.calls_base.specs.declared.results.TheConstants.{DONE, NOTHING};

use crate::stack::frames::reported;
use crate::stack::walk::{ModuleView, ViewedModules};
use calls_base::results::{DONE, LONG_CHAIN, NOTHING, number_of};
use pe_frame::{
    LoadedModules, Memory, MemoryList, MemoryPiece, SearchedMemory, WalkEnd, WalkFrame,
    WalkPosition, Way,
};

/// The record of a walk on some machine: where the walk is, and the frame that was returned last.
pub trait WalkRecord: Copy {
    /// A frame of its machine.
    type Frame: WalkFrame;

    // What a record says, and what it is after a frame and after the end.
    ghost records: { WalkRecords Self Self.Frame };

    /// Where the walk is.
    fn position(&self) -> WalkPosition<Self::Frame>
        ensures { (p : Process) → state_of p result ≡ state_in records p self.now };

    /// Writes a frame.
    fn put_frame(&mut self, frame: &Self::Frame)
        requires { 0 < records.remaining self.old }
        ensures after { self.new ≡ records.after_frame self.old frame.now }
        ensures kept { records.frame self.new ≡ frame.now }
        ensures position { (p : Process) →
            state_in records p self.new ≡ walk_after (state_in records p self.old) (Ok frame.now) };

    /// Writes why the walk is over.
    fn put_end(&mut self, end: &WalkEnd)
        ensures { self.new ≡ records.after_end self.old end.now };

    /// An address near which it reads memory.
    fn stack_pointer(&self) -> u64;

    /// Whether an earlier call found that the pieces of memory lie in the memory and ascend.
    fn is_searched(&self) -> bool
        ensures { result ≡ records.is_searched self.now };

    /// Writes that a call found so.
    fn mark(&mut self)
        ensures { self.new ≡ records.marked self.old };
}

/// The number of a way.
pub fn number_of_way(way: Way) -> u32
    ensures { result ≡ way_number way }
{
    match way {
        Way::Top => 0,
        Way::Records => 1,
        Way::Leaf => 2,
        Way::Interrupt => 3,
        Way::Scanned => 4,
        Way::FramePointer => 5,
    }
}

/// The way with a number.
#[tactic(auto, unfolding(crate::specs::FrameCalls::way_of))]
pub fn way_of(number: u32) -> Way
    ensures { result ≡ way_of number }
{
    match number {
        1 => Way::Records,
        2 => Way::Leaf,
        3 => Way::Interrupt,
        4 => Way::Scanned,
        5 => Way::FramePointer,
        _ => Way::Top,
    }
}

/// The number of a reason why a walk is over.
pub fn number_of_end(end: &WalkEnd) -> u32
    ensures { result ≡ end_number end.now }
{
    match end {
        WalkEnd::Bound => 0,
        WalkEnd::Bottom => 1,
        WalkEnd::NoModule => 2,
        WalkEnd::NoFunction => 3,
        WalkEnd::Records(_) => 4,
        WalkEnd::LongChain => 5,
        WalkEnd::Step(_) => 6,
        WalkEnd::Zero => 7,
        WalkEnd::NoReturnAddress => 8,
    }
}

/// The number of the error for which a walk is over, and the address that it speaks of.
pub fn error_of_end(end: &WalkEnd) -> (u32, Option<u64>)
    ensures { result ≡ (end_error end.now, end_address end.now) }
{
    match end {
        WalkEnd::Records(error) => (number_of(error), None),
        WalkEnd::LongChain => (LONG_CHAIN, None),
        WalkEnd::Step(error) => reported(error),
        _ => (0, None),
    }
}

/// The walk after so many frames, each of which stands in its slot.
fn walk_after<W: WalkRecord>(walk: &W, frames: &[W], count: usize) -> W
    requires { count ≤ length frames.now }
    ensures { result ≡ reached walk.now frames.now count }
{
    if count == 0 { *walk } else { frames[count - 1] }
}

/// The next frames of a walk: in each slot the walk as it is after a frame. Returns how many there are. A frame is written to its slot
/// alone: the walk becomes the last of them at the end.
#[tactic(auto, using(crate::proofs::NextFrames::none_yet, crate::proofs::NextFrames::one_more, crate::proofs::NextFrames::others_stay, crate::proofs::NextFrames::over_here, crate::proofs::NextFrames::all_filled))]
fn next_frames<W: WalkRecord, L: LoadedModules, M: Memory>(
    modules: &L,
    memory: &M,
    walk: &mut W,
    frames: &mut [W],
) -> usize
    ensures { FillsFrames W.Frame.Calls W.records
        (record { memory = M.word memory.now; modules = L.modules modules.now })
        result frames.old frames.new walk.old walk.new }
{
    let mut position = walk.position();
    for i in 0..frames.len() {
        if position.remaining == 0 {
            *walk = walk_after(walk, frames, i);
            return i;
        }
        if !position.advance(modules, memory) {
            *walk = walk_after(walk, frames, i);
            walk.put_end(&position.end);
            return i;
        }
        // Read here: before the frame, its registers would be copied too.
        let mut next = walk_after(walk, frames, i);
        next.put_frame(&position.frame);
        frames[i] = next;
    }
    *walk = walk_after(walk, frames, frames.len());
    frames.len()
}

/// The next frames of a walk over these modules and this memory, and how many there are.
fn fill_frames<W: WalkRecord, L: LoadedModules, M: Memory>(
    modules: &L,
    memory: &M,
    walk: &mut W,
    frames: &mut [W],
    count: &mut u64,
) -> u32
    ensures frames { FillsFrames W.Frame.Calls W.records
        (record { memory = M.word memory.now; modules = L.modules modules.now })
        count.new frames.old frames.new walk.old walk.new }
    ensures number { result ≡ (if nat_lt count.new (length frames.old) then NOTHING else DONE) }
{
    let filled = next_frames(modules, memory, walk, frames);
    *count = filled as u64;
    if filled < frames.len() { NOTHING } else { DONE }
}

/// Marks a walk whose pieces of memory ascend.
fn mark_if<W: WalkRecord>(ascend: bool, walk: &mut W)
    ensures { walk.new ≡ marked_if W.records ascend walk.old }
{
    if ascend {
        walk.mark();
    }
}

/// A process as a caller passes it.
#[derive(Clone, Copy)]
pub struct ProcessView<'a> {
    /// Its modules.
    pub modules: &'a [ModuleView<'a>],
    /// Bytes of its memory.
    pub memory: &'a [u8],
    /// Where each of them is.
    pub pieces: &'a [MemoryPiece],
}

/// The next frames of a walk over what a caller passes, and how many there are.
pub fn next_frames_over<W: WalkRecord>(
    process: &ProcessView<'_>,
    walk: &mut W,
    frames: &mut [W],
    count: &mut u64,
) -> u32
    ensures { HandsOutFrames W.Frame.Calls W.records
        process.now.modules.now process.now.memory.now process.now.pieces.now
        result (frames.old, count.old) (frames.new, count.new) walk.old walk.new }
{
    let ProcessView {
        modules,
        memory,
        pieces,
    } = *process;
    let modules = match ViewedModules::new(modules) {
        Ok(modules) => modules,
        Err(error) => return number_of(&error),
    };
    if walk.is_searched() {
        let memory = SearchedMemory::new(memory, pieces);
        return fill_frames(&modules, &memory, walk, frames, count);
    }
    let memory = match MemoryList::new(memory, pieces) {
        Ok(memory) => memory,
        Err(error) => return number_of(&error),
    };
    mark_if(memory.is_ascending(), walk);
    let memory = memory.near(walk.stack_pointer());
    fill_frames(&modules, &memory, walk, frames, count)
}
