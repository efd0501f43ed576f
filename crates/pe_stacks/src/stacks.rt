//! The frames of threads, over the modules and the memory of their process, with a bound on all of them together: in a dump many
//! threads may share one deep stack.

ghost use Rattle.std.specs.Prelude.{◌≡◌, ◌+◌, ◌<◌, length, min, IfErr, IfOk};
ghost use Rattle.std.specs.Iterator.{at_most};
ghost use Rattle.std.specs.Option.{option_map};
ghost use Rattle.pe_frame.specs.FrameWalks.{Advances, IsWalk, end_of, starting_walk};
ghost use Rattle.pe_stacks.specs.ThreadWalks.{process_of, walk_at};

use pe_frame::{LoadedModules, Memory, WalkEnd, WalkFrame, WalkPosition};
use std::alloc::{AllocError, Allocator};

/// The frames of a thread, from the top frame outwards, each read when it is asked for.
#[derive(Drop)]
pub struct ThreadFrames<'s, F, L, M> {
    modules: &'s L,
    memory: &'s M,
    position: WalkPosition<F>,
}

impl<'s, F: WalkFrame, L: LoadedModules, M: Memory> ThreadFrames<'s, F, L, M> {
    /// A walk of at most `most` frames, from the top frame of a thread.
    pub fn new(modules: &'s L, memory: &'s M, top: F, most: usize) -> ThreadFrames<'s, F, L, M>
        ensures { walk_at (L.modules) (M.word) result
            ≡ starting_walk (process_of (L.modules) (M.word) modules.entry.now memory.entry.now) top most }
    {
        ThreadFrames {
            modules,
            memory,
            position: WalkPosition::starting(top, most),
        }
    }

    /// Why the walk is over. `None` while a frame may follow.
    pub fn end(&self) -> Option<&WalkEnd>
        ensures { option_map (λ e. e.now) result ≡ end_of (walk_at (L.modules) (M.word) self.now) }
    {
        if self.position.remaining == 0 {
            Some(&self.position.end)
        } else {
            None
        }
    }
}

impl<'s, F: WalkFrame, L: LoadedModules, M: Memory> Iterator for ThreadFrames<'s, F, L, M> {
    type Item = F;

    ghost next_gives = { λ s r t. Advances F.Calls
        (walk_at (L.modules) (M.word) s) r (walk_at (L.modules) (M.word) t) };

    ghost remaining = { λ s. at_most s.position.remaining };

    fn next(&mut self) -> Option<F> {
        self.position.next(self.modules, self.memory)
    }
}

/// The frames of a thread, and why there are no more.
#[derive(Drop)]
pub struct ThreadStack<F: Drop, A: Allocator + Drop> {
    /// The frames, from the top frame outwards.
    pub frames: Vec<F, A>,
    /// Why the walk is over: `Bound` also where all walks together have returned as many frames as they may.
    pub end: WalkEnd,
}

/// The stacks of the threads of a process, with a bound on the frames of all walks together.
#[derive(Drop)]
pub struct Stacks<'s, L, M> {
    modules: &'s L,
    memory: &'s M,
    left: usize,
}

impl<'s, L: LoadedModules, M: Memory> Stacks<'s, L, M> {
    /// The stacks over these modules and this memory, with at most so many frames together.
    pub fn new(modules: &'s L, memory: &'s M, most: usize) -> Stacks<'s, L, M>
        ensures modules { result.modules.now ≡ modules.entry.now }
        ensures memory { result.memory.now ≡ memory.entry.now }
        ensures left { result.left ≡ most }
    {
        Stacks {
            modules,
            memory,
            left: most,
        }
    }

    /// How many frames walks may still return.
    pub fn left(&self) -> usize
        ensures { result ≡ self.now.left }
    {
        self.left
    }

    /// The frames of a thread from its top frame on, at most `most`, and at most as many as are left. Where an allocation fails, as
    /// many are left as before; a walk of no frame asks for no memory.
    pub fn walk<F: WalkFrame + Drop, A: Allocator + Drop>(
        &mut self,
        alloc: A,
        top: F,
        most: usize,
    ) -> Result<ThreadStack<F, A>, AllocError>
        ensures walk { IfOk result (λ s. IsWalk F.Calls
            (starting_walk (process_of (L.modules) (M.word) self.old.modules.now self.old.memory.now) top (min most self.old.left))
            s.frames.items s.end) }
        ensures left { IfOk result (λ s. length s.frames.items + self.new.left ≡ self.old.left) }
        ensures refused { IfErr result (λ e. 0 < min most self.old.left) }
        ensures kept { IfErr result (λ e. self.new.left ≡ self.old.left) }
        ensures modules { self.new.modules ≡ self.old.modules }
        ensures memory { self.new.memory ≡ self.old.memory }
    {
        let mut walk = ThreadFrames::new(self.modules, self.memory, top, most.min(self.left));
        let mut frames = Vec::new(alloc);
        while let Some(frame) = walk.next() {
            frames.push(frame)?;
        }
        self.left -= frames.len();
        Ok(ThreadStack {
            frames,
            end: walk.position.end,
        })
    }
}
