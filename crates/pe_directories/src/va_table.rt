//! Tables of numbers that are as wide as virtual addresses, 4 bytes in PE32 and 8 in PE32+, and end with a zero: TLS
//! callbacks, and what is imported of a DLL.

ghost use Rattle.std.specs.Prelude.{◌≡◌, Some, None};
ghost use Rattle.std.specs.Iterator.{at_most};
ghost use Rattle.pe_directories.specs.Walks.{ReturnsFirst, LeavesFewer, Steps, most_left, rest_of};
ghost use Rattle.pe_directories.specs.VaTables.{first_va, vas_left, vas_are_64};

use crate::error::{DirectoryError, Result};
use crate::image_bytes::size_of_va;
use pe_core::{read_u32, read_u64, require_bytes};

/// The number at the start of a table, and the bytes after it. `None` if it is zero. Error: `Image` with `Short`.
#[tactic(auto, unfolding(crate::specs::VaTables::first_va))]
fn first_va(is_64: bool, bytes: &[u8]) -> Option<Result<(u64, &[u8])>>
    ensures first { ReturnsFirst (λ x. x) (λ r. r.now) (first_va is_64 bytes.now) result }
    ensures fewer { LeavesFewer (λ r. r.now) bytes.now result }
{
    let size = size_of_va(is_64);
    if let Err(error) = require_bytes(bytes, 0, size) {
        return Some(Err(DirectoryError::Image(error)));
    }
    let va = if is_64 {
        read_u64(bytes, 0)
    } else {
        u64::from(read_u32(bytes, 0))
    };
    if va == 0 {
        return None;
    }
    Some(Ok((va, &bytes[size..])))
}

/// The numbers that are left of a table: those before the first zero. A table that ends with the bytes instead has one more
/// item, the error `Image` with `Short`. It is over after an error.
#[derive(Clone, Copy)]
pub struct VaTable<'a> {
    is_64: bool,
    left: Option<&'a [u8]>,
}

impl<'a> VaTable<'a> {
    /// The table at the start of these bytes, with numbers of 8 bytes if `is_64`, otherwise of 4.
    pub fn new(bytes: &'a [u8], is_64: bool) -> VaTable<'a>
        ensures left { vas_left result ≡ Some bytes.entry.now }
        ensures width { vas_are_64 result ≡ is_64 }
    {
        VaTable {
            is_64,
            left: Some(bytes),
        }
    }

    /// A table without numbers.
    pub(crate) fn over(is_64: bool) -> VaTable<'a>
        ensures left { vas_left result ≡ None }
        ensures width { vas_are_64 result ≡ is_64 }
    {
        VaTable { is_64, left: None }
    }

    /// The bytes that are left: those of the next item are at their start. Empty if the walk is over.
    pub fn rest(&self) -> &'a [u8]
        ensures { result.now ≡ rest_of (vas_left self.now) }
    {
        self.left.unwrap_or_default()
    }
}

impl<'a> Iterator for VaTable<'a> {
    type Item = Result<u64>;

    ghost next_gives = { λ s r t. Steps (λ x. x)
        (first_va (vas_are_64 s)) (vas_left s) r (vas_left t)
        × (vas_are_64 t ≡ vas_are_64 s) };

    ghost remaining = { λ s. at_most (most_left (vas_left s)) };

    fn next(&mut self) -> Option<Result<u64>> {
        let bytes = self.left?;
        self.left = None;
        match first_va(self.is_64, bytes)? {
            Ok((va, rest)) => {
                self.left = Some(rest);
                Some(Ok(va))
            }
            Err(error) => Some(Err(error)),
        }
    }
}
