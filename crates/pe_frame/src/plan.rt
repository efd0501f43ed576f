//! What a step on x64 takes of a function: its records, and where it stopped.

use pe_unwind::UnwindInfo;

/// The plan of a function: where it starts, and the unwind records that are undone there.
#[derive(Clone, Copy)]
pub struct FunctionPlan<'p, 'a> {
    /// The RVA where it starts: the `begin_address` of the function that lookup found.
    pub start: u32,
    /// Its record and then those to which that is chained, as `UnwindPlan::of` of pe_plan returns them.
    pub records: &'p [UnwindInfo<'a>],
}

/// Where a function stopped.
#[derive(Clone, Copy)]
pub struct Stopped<'c> {
    /// The instruction pointer less the image base.
    pub rva: u32,
    /// The function's bytes from there to its end, by which an epilog is known. Empty at a return address, where none has begun.
    pub code: &'c [u8],
}
