//! Where a walk of a stack is, on any machine: what a caller keeps between two frames, without the modules and the memory that the
//! walk is over.

ghost use Rattle.std.specs.Prelude.{◌≡◌, if◌then◌else◌, OnErr, Result, Some, None};
ghost use Rattle.pe_frame.specs.FrameWalks.{Process, frame_left};
ghost use Rattle.pe_frame.specs.declared.walk.WalkEnd.{WalkEnd};

use crate::memory::Memory;
use crate::process::LoadedModules;
use crate::walk::WalkEnd;

/// A frame of a stack on some machine: `StackFrame` of x64 or `Arm64StackFrame`.
pub trait WalkFrame: Copy {
    // What may be the caller of a frame, or the reason why it has none.
    ghost Calls: { Process → Self → Result Self WalkEnd → Type 0 };

    /// Makes it that of its caller, or says why there is none: then it stays.
    fn become_caller<L: LoadedModules, M: Memory>(
        &mut self,
        modules: &L,
        memory: &M,
    ) -> Result<(), WalkEnd>
        ensures caller { Calls
            (record { memory = M.word memory.now; modules = L.modules modules.now })
            self.old (frame_left result self.new) }
        ensures kept { OnErr result (self.new ≡ self.old) };
}

/// Where a walk is, without the modules and the memory that it is over. A caller may keep it between two frames.
#[derive(Drop)]
pub struct WalkPosition<F> {
    /// The frame that was returned last; before that of the top frame, the top frame.
    pub frame: F,
    /// Whether it was returned.
    pub has_returned: bool,
    /// How many frames follow at most; 0 once the walk is over.
    pub remaining: usize,
    /// Why the walk is over, once it is.
    pub end: WalkEnd,
}

impl<F: WalkFrame> WalkPosition<F> {
    ghost use Rattle.pe_frame.specs.FrameWalks.{Advances, Follows, state_of, starting_walk};

    /// Before the first of at most `most` frames, from the top frame of a thread.
    pub fn starting(top: F, most: usize) -> WalkPosition<F>
        ensures { (p : Process) → state_of p result ≡ starting_walk p top most }
    {
        WalkPosition {
            frame: top,
            has_returned: false,
            remaining: most,
            end: WalkEnd::Bound,
        }
    }

    /// Makes the frame the one that follows: the first as it is, and then the caller of each. Where none follows, it stays.
    fn follow<L: LoadedModules, M: Memory>(
        &mut self,
        modules: &L,
        memory: &M,
    ) -> Result<(), WalkEnd>
        ensures follows { Follows F.Calls
            (state_of (record { memory = M.word memory.now; modules = L.modules modules.now }) self.old)
            (frame_left result self.new.frame) }
        ensures others { self.new ≡ record self.old { frame = self.new.frame } }
        ensures kept { OnErr result (self.new ≡ self.old) }
    {
        if !self.has_returned {
            return Ok(());
        }
        match self.frame.become_caller(modules, memory) {
            Ok(()) => Ok(()),
            Err(end) => Err(end),
        }
    }

    /// Goes on to the next frame of the walk over these modules and this memory, which is `frame` then. False once the walk is
    /// over: then `frame` stays.
    #[tactic(auto, using(crate::proofs::FrameWalks::advanced))]
    pub fn advance<L: LoadedModules, M: Memory>(&mut self, modules: &L, memory: &M) -> bool
        ensures { Advances F.Calls
            (state_of (record { memory = M.word memory.now; modules = L.modules modules.now }) self.old)
            (if result then Some self.new.frame else None)
            (state_of (record { memory = M.word memory.now; modules = L.modules modules.now }) self.new) }
    {
        if self.remaining == 0 {
            return false;
        }
        match self.follow(modules, memory) {
            Ok(()) => {
                self.has_returned = true;
                self.remaining -= 1;
                true
            }
            Err(end) => {
                self.remaining = 0;
                self.end = end;
                false
            }
        }
    }

    /// The next frame of the walk over these modules and this memory. `None` once the walk is over.
    pub fn next<L: LoadedModules, M: Memory>(&mut self, modules: &L, memory: &M) -> Option<F>
        ensures { Advances F.Calls
            (state_of (record { memory = M.word memory.now; modules = L.modules modules.now }) self.old)
            result
            (state_of (record { memory = M.word memory.now; modules = L.modules modules.now }) self.new) }
    {
        if self.advance(modules, memory) {
            Some(self.frame)
        } else {
            None
        }
    }
}
