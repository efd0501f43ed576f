//! The names of a directory of bound imports, read together. A hostile directory may let thousands of names start in one long
//! text, where to read each by itself would take quadratic time. A caller makes a `BoundNames`, walks through the DLLs and their
//! forwarders, and looks up the name of each by its offset.

ghost use Rattle.std.specs.Prelude.{◌≡◌, ◌<◌, ◌^◌, IfOk, IfErr};
ghost use Rattle.std.specs.Option.{option_map};
ghost use Rattle.pe_core.specs.Rows.{each};
ghost use Rattle.pe_core.specs.Text.{text_at};
ghost use Rattle.pe_core.specs.declared.error.Error.TheVariants.{Memory};
ghost use Rattle.pe_directories.specs.BoundImports.{bound_name};
ghost use Rattle.pe_directories.specs.DirectoryRefusals.{DirectoryReturns};
ghost use Rattle.pe_directories.specs.declared.error.DirectoryError.TheVariants.{Image};

use crate::bound_import::BoundImportDirectory;
use crate::error::{DirectoryError, Result};
use pe_core::texts_at;
use std::alloc::{AllocError, Allocator};
use std::marker::Model;

/// How many offsets an entry can say: it has 16 bits for one.
const MOST_OFFSETS: usize = 1 << 16;

/// The names of a directory of bound imports, by their offsets.
#[derive(Drop)]
pub struct BoundNames<'a, A: Allocator> {
    directory: BoundImportDirectory<'a>,
    /// The texts at the offsets from 0 on.
    texts: Vec<Option<&'a str>, A>,
}

impl<'a, A: Allocator> Model for BoundNames<'a, A> {
    ghost use Rattle.std.specs.Prelude.{ℕ, List};
    ghost use Rattle.pe_directories.specs.BoundImports.{AreTexts};

    ghost Value = { List ℕ };

    ghost view = { λ s. s.directory.bytes.now };

    ghost invariant = { λ s. AreTexts s.directory.bytes.now s.texts.items };
}

/// As many offsets, from 0 on.
#[tactic(auto, unfolding(pe_core::specs::Rows::each))]
fn first_offsets<A: Allocator>(
    alloc: A,
    count: usize,
) -> std::result::Result<Vec<usize, A>, AllocError>
    ensures { IfOk result (λ v. v.items ≡ each (λ offset. offset) count) }
{
    let mut offsets = Vec::with_capacity(alloc, count)?;
    for offset in 0..count {
        offsets.push(offset)?;
    }
    Ok(offsets)
}

impl<'a> BoundImportDirectory<'a> {
    /// The names of the directory, for callers that look up many: to call `name` for each takes quadratic time where the names
    /// overlap. It takes about as long as to read each byte of the directory a few times, and has room for a name at each of its
    /// first 65,536 offsets. Error: `Image` with `Memory`.
    pub fn names<A: Allocator + Copy + Drop>(&self, alloc: A) -> Result<BoundNames<'a, A>>
        ensures made { IfOk result (λ names. names ≡ self.now.bytes.now) }
        ensures refused { IfErr result (λ error. error ≡ Image (Memory record {})) }
    {
        let count = self.bytes.len().min(MOST_OFFSETS);
        let offsets = first_offsets(alloc, count)?;
        let texts = texts_at(alloc, self.bytes, &offsets)?;
        Ok(BoundNames {
            directory: *self,
            texts,
        })
    }
}

impl<'a, A: Allocator> BoundNames<'a, A> {
    /// The text at an offset. `None` if it is not NUL-terminated or not UTF-8, or if the offset is past the end.
    fn text(&self, offset: usize) -> Option<&'a str>
        requires { offset < 2 ^ 16 }
        ensures { option_map (λ s. s.now) result ≡ text_at self.now offset }
    {
        if offset >= self.texts.len() {
            return None;
        }
        self.texts[offset]
    }

    /// The name at an offset from the start of the directory, as `BoundImportDirectory::name` returns it. It takes the same time
    /// for each, however long the name is. Error: `BoundImportName`.
    #[tactic(auto, unfolding(crate::specs::BoundImports::bound_name))]
    pub fn name(&self, offset: u16) -> Result<&'a str>
        ensures { DirectoryReturns (λ s. s.now) result (bound_name self.now offset) }
    {
        match self.text(usize::from(offset)) {
            Some(name) => Ok(name),
            None => Err(DirectoryError::BoundImportName(offset)),
        }
    }
}
