//! The stacks of a minidump: the frames of its threads, over the memory, the modules and the images that it leads to
//! ([MiniDumpReadDumpStream](https://learn.microsoft.com/windows/win32/api/minidumpapiset/)).
//!
//! A caller reads the dump by `pe_minidump`. `memory_and_stacks` lists its memory, of which `IndexedMemory` is made, or
//! `MemoryRuns`, which has it in ascending order. For each module the caller looks for an image, wherever that may be, and `ModuleImage::parse` takes
//! it if its time stamp and its size are those of the module; `ModuleImage::from_memory` takes it from the dump's own memory.
//! `IndexedModules` has them in the order of the dump. `thread_context_x64` and `thread_context_arm64` return the
//! registers with which a walk starts, those of the exception first, and `Stacks` the frames of each thread, with a bound on all
//! of them together.
//!
//! Every call is proved to return what its definition in `specs/` says, for every byte string: the frames are those of the walk of
//! `pe_frame` over the same memory and modules.
#![tactic(auto)]

mod context;
mod image;
pub mod laws;
mod memory;
mod modules;
mod names;
mod range_index;
mod ranges;
mod run_memory;
mod runs;
mod stacks;

pub use context::{thread_context_arm64, thread_context_x64};
pub use image::{ModuleImage, is_image_of};
pub use memory::{IndexedMemory, memory_and_stacks, memory_pieces};
pub use modules::IndexedModules;
pub use names::{FunctionStart, NamedAddresses, NamedFunction, name_of};
pub use pe_core::RangeEntry;
pub use range_index::put_index;
pub use ranges::IndexedRanges;
pub use run_memory::MemoryRuns;
pub use runs::put_memory_runs;
pub use stacks::{Stacks, ThreadFrames, ThreadStack};
