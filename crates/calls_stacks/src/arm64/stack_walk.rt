//! Walks of a stack on ARM64, a frame a call.
//! https://learn.microsoft.com/cpp/build/arm64-exception-handling

ghost use Rattle.std.specs.Prelude.{◌≡◌, ◌<◌};
ghost use Rattle.calls_stacks.specs.Arm64StackWalks.{after_frame, arm64_stack_walks};

use crate::arm64::frames::{Arm64FrameRegisters, flat_registers, registers_of};
use crate::stack::calls::{WalkRecord, error_of_end, number_of_end, number_of_way, way_of};
use pe_frame::{Arm64StackFrame, WalkEnd, WalkPosition};

/// A walk of a stack on ARM64, and the frame that was returned last.
#[repr(C)]
#[derive(Clone, Copy)]
pub struct Arm64StackWalk {
    /// The registers in the frame; before the first call those of the thread.
    pub registers: Arm64FrameRegisters,
    /// How many frames follow at most. 0 once the walk is over.
    pub remaining: u64,
    /// Of a walk that is over the address that its error speaks of, or 0.
    pub address: u64,
    /// 0 before the first call, else 1.
    pub has_returned: u32,
    /// How the frame was found, as in `StackWalk`.
    pub way: u32,
    /// 1 where the function of the frame has called: `pc` is the return address. Else 0.
    pub has_called: u32,
    /// Why the walk is over, as in `StackWalk`.
    pub end: u32,
    /// Of a walk that is over the number of the error, for records and a step, else 0.
    pub error: u32,
    /// 1 where the pieces of memory are searched, as in `StackWalk`.
    pub is_searched: u32,
    /// 1 where the frame may be wrong, as in `StackWalk`.
    pub is_guess: u32,
    /// 0.
    pub spare: u32,
}

/// Writes a frame to a walk. Inlined, as walks are compiled for tested and for searched memory, and each writes every frame.
#[inline(always)]
fn write_frame(frame: &Arm64StackFrame, walk: &mut Arm64StackWalk)
    requires { 0 < walk.old.remaining }
    ensures { walk.new ≡ after_frame walk.old frame.now }
{
    walk.registers = flat_registers(&frame.registers);
    walk.remaining -= 1;
    walk.has_returned = 1;
    walk.way = number_of_way(frame.way);
    walk.has_called = u32::from(frame.has_called);
    walk.is_guess = u32::from(frame.is_guess);
}

impl WalkRecord for Arm64StackWalk {
    type Frame = Arm64StackFrame;

    ghost records = { arm64_stack_walks };

    fn position(&self) -> WalkPosition<Arm64StackFrame> {
        WalkPosition {
            frame: Arm64StackFrame {
                registers: registers_of(&self.registers),
                way: way_of(self.way),
                has_called: self.has_called != 0,
                is_guess: self.is_guess != 0,
            },
            has_returned: self.has_returned != 0,
            remaining: self.remaining as usize,
            end: WalkEnd::Bound,
        }
    }

    #[inline(always)]
    fn put_frame(&mut self, frame: &Arm64StackFrame) {
        write_frame(frame, self);
    }

    fn put_end(&mut self, end: &WalkEnd) {
        let (error, address) = error_of_end(end);
        self.remaining = 0;
        self.end = number_of_end(end);
        self.error = error;
        self.address = address.unwrap_or(0);
    }

    fn stack_pointer(&self) -> u64 {
        self.registers.sp
    }

    fn is_searched(&self) -> bool {
        self.is_searched != 0
    }

    fn mark(&mut self) {
        self.is_searched = 1;
    }
}
