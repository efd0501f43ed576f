//! Limits on what an image may list, for callers that must not run out of memory: import records may share their lookup
//! entries, so an image may have more imports than bytes.

/// What an image may have. One that has more is refused, in both modes.
#[derive(Clone, Copy)]
pub struct Limits {
    /// How many imports at most, of all DLLs together.
    pub imports: u32,
}
