//! The strings of a dump (`MINIDUMP_STRING`): paths of modules, names of threads, the name of a service pack. 4 bytes say
//! how many bytes follow, which are UTF-16, little-endian; a zero after them is not counted. The offset of a string is from
//! the start of the file.
//!
//! They come from the process that crashed, and from whoever wrote the file: a path may lead anywhere, and a text may have
//! control characters.
//!
//! <https://learn.microsoft.com/windows/win32/api/minidumpapiset/ns-minidumpapiset-minidump_string>

ghost use Rattle.std.specs.Prelude.{◌≡◌};
ghost use Rattle.pe_minidump.specs.Dumps.{text_at};
ghost use Rattle.pe_minidump.specs.Refusals.{DumpReturns};

use crate::dump::Dump;
use crate::error::{DumpError, Result};
use crate::location::located;
use pe_core::read_u32;

/// The size of the number before a string in bytes.
const SIZE_OF_LENGTH: u64 = 4;

/// The string at an offset of a file, as bytes in UTF-16LE. Errors, in order: `Location` if its length does not lie in the
/// file; `Text` if it is odd; `Location` if the bytes do not.
pub fn text_at(file: &[u8], rva: u64) -> Result<&[u8]>
    ensures { DumpReturns (λ s. s.now) result (text_at file.entry.now rva) }
{
    let size = read_u32(located(file, rva, SIZE_OF_LENGTH)?, 0);
    if size % 2 != 0 {
        return Err(DumpError::Text { rva, size });
    }
    located(file, rva + SIZE_OF_LENGTH, u64::from(size))
}

impl<'a> Dump<'a> {
    /// The string at an offset of the file: that of `text_at`, with its errors.
    pub fn text(&self, rva: u64) -> Result<&'a [u8]>
        ensures { DumpReturns (λ s. s.now) result (text_at self.now.bytes.now rva) }
    {
        text_at(self.bytes, rva)
    }
}
