//! A walk over the inlined functions of an offset, as far as it has come.

ghost use Rattle.std.specs.Prelude.{◌+◌, ◌≤◌};

use crate::inline_rows::InlineRow;

/// An inlined function that has an offset of its procedure.
#[derive(Clone, Copy)]
pub struct InlineFrame {
    /// The offset of its record in the symbols of the module.
    pub record_offset: usize,
    /// Which function was inlined, an index of the stream of ids.
    pub inlinee: u32,
    /// The row that has the offset.
    pub row: InlineRow,
}

/// Scopes that were started and not ended, within the function that was found last.
#[derive(Clone, Copy)]
pub(crate) struct Scopes {
    /// Those that are left out: a function that does not have the offset, and what is in it.
    pub(crate) skipped: usize,
    /// Parts of the function itself.
    pub(crate) parts: usize,
}

/// What a record is for a walk.
#[derive(Clone, Copy)]
pub(crate) enum Step {
    /// The end of the function that was found last.
    Over,
    /// Another record: the scopes after it.
    On(Scopes),
    /// A function that has the offset.
    Found(InlineFrame),
}

/// The inlined functions that are left, the outermost first. It is over after an error.
#[derive(Clone, Copy)]
pub struct InlineFrames<'a> {
    pub(crate) bytes: &'a [u8],
    pub(crate) next: usize,
    pub(crate) offset: u32,
    pub(crate) scopes: Scopes,
    ghost few: { scopes.skipped + scopes.parts ≤ next },
}
