//! A stack walk through the modules of a process.

use pe_frame::{Memory, Module, Modules, Registers, StackFrames};
use pe_image::{PE, ParseOptions};
use std::alloc::{AllocError, Global};

/// The module of an x64 image that is loaded at `base`. `bytes` and `opts` are those of which it was parsed.
pub fn module_of<'a>(
    image: &'a PE<'a>,
    bytes: &'a [u8],
    base: u64,
    opts: &ParseOptions,
) -> Module<'a> {
    let size = match &image.header.optional_header {
        Some(header) => header.windows_fields.size_of_image,
        None => 0,
    };
    Module {
        base,
        size,
        bytes,
        sections: &image.sections,
        index: &[],
        exceptions: image.x64_exceptions(),
        opts: *opts,
    }
}

/// The instruction pointers of a thread's frames, from the top frame outwards, at most so many. `modules` are those of its
/// process, in ascending order of their addresses: `None` if they are not, or overlap. `memory` has its stack, as `Stack` of
/// one piece, `StackPieces` of several or `MemoryList` of those that a minidump lists.
pub fn backtrace<M: Memory>(
    alloc: Global,
    modules: &[Module<'_>],
    registers: Registers,
    memory: &M,
    most: usize,
) -> Result<Option<Vec<u64>>, AllocError> {
    let Ok(modules) = Modules::new(modules) else {
        return Ok(None);
    };
    let mut pointers = Vec::new(alloc);
    for frame in StackFrames::new(modules, memory, registers, most) {
        pointers.push(frame.registers.rip)?;
    }
    Ok(Some(pointers))
}
