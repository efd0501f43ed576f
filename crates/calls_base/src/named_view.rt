//! An image of which names and lists are read: each by itself, or many together in a room of the caller.

ghost use Rattle.std.specs.Prelude.{◌≡◌, ◌==◌};
ghost use Rattle.std.specs.Option.{option_map};
ghost use Rattle.pe_core.specs.Imports.{entry_size, lookups_at};
ghost use Rattle.pe_core.specs.Refusals.{ReturnsAs};
ghost use Rattle.pe_core.specs.Text.{text_at};
ghost use Rattle.calls_base.specs.Ranges.{text_from};

use crate::entry_lists::EntryLists;
use crate::ranges::Range;
use crate::text_runs::{Run, Texts};
use crate::view::View;
use pe_core::Result;

/// An image, and how its texts and lists of lookup entries are looked up.
#[derive(Clone, Copy)]
pub struct NamedView<'a> {
    pub view: &'a View<'a>,
    texts: Texts<'a>,
    lists: EntryLists<'a>,
    ghost texts_same: { texts.bytes.now ≡ view.now.bytes.now },
    ghost lists_same: { lists.bytes.now ≡ view.now.bytes.now },
    ghost width: { lists.is_64 ≡ (view.now.image.now.width == 64) },
}

impl<'a> NamedView<'a> {
    /// An image of which each name is read by itself.
    pub fn alone(view: &'a View<'a>) -> NamedView<'a>
        ensures { result.view.now ≡ view.entry.now }
    {
        NamedView {
            view,
            texts: Texts::alone(view.bytes),
            lists: EntryLists::alone(view.bytes, view.image.width == 64),
        }
    }

    /// An image of which the names at the offsets that a room has as starts are read together.
    pub fn together(view: &'a View<'a>, room: &'a mut [Run]) -> NamedView<'a>
        ensures { result.view.now ≡ view.entry.now }
    {
        NamedView {
            view,
            texts: Texts::together(view.bytes, room),
            lists: EntryLists::alone(view.bytes, view.image.width == 64),
        }
    }

    /// The same, and the lists of lookup entries at the offsets that another room has as starts.
    pub fn with_lists(
        view: &'a View<'a>,
        room: &'a mut [Run],
        list_room: &'a mut [Run],
    ) -> NamedView<'a>
        ensures { result.view.now ≡ view.entry.now }
    {
        NamedView {
            view,
            texts: Texts::together(view.bytes, room),
            lists: EntryLists::together(view.bytes, view.image.width == 64, list_room),
        }
    }

    /// The text at a file offset.
    #[inline(always)]
    pub fn text_at(&self, offset: usize) -> Option<&'a str>
        ensures { option_map (λ s. s.now) result ≡ text_at self.now.view.now.bytes.now offset }
    {
        self.texts.at(offset)
    }

    /// The range of the text at a file offset, if there is an offset and a text is there.
    pub fn range_at(&self, offset: Option<usize>) -> Option<Range>
        ensures { result ≡ text_from self.now.view.now.bytes.now offset }
    {
        let offset = offset?;
        let text = self.text_at(offset)?;
        Some(Range {
            offset: offset as u64,
            length: text.len() as u64,
        })
    }

    /// The lookup entries at a file offset, none without an offset. `Short` where no zero entry ends them.
    pub fn list_at(&self, offset: Option<usize>) -> Result<&'a [u8]>
        ensures { ReturnsAs (λ s. s.now) result
            (lookups_at (entry_size (self.now.view.now.image.now.width == 64))
            self.now.view.now.bytes.now offset) }
    {
        match offset {
            Some(offset) => self.lists.at(offset),
            None => Ok(&[]),
        }
    }
}
