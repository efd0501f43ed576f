//! Thread-local storage: the TLS directory, and its callbacks, which run before the entry point.
//! https://learn.microsoft.com/windows/win32/debug/pe-format#the-tls-section

ghost use Rattle.std.specs.Prelude.{◌≡◌};
ghost use Rattle.pe_directories.specs.DirectoryRefusals.{directory_answer};
ghost use Rattle.calls_base.specs.Directories.{callbacks_at, first_va_in, left_after, step_of, tls_at};
ghost use Rattle.calls_base.specs.Views.{directory_sections, may_map};

use calls_base::directories::{Result, image_at, offset_of_va, range_left};
use calls_base::image::{TLS_TABLE, directory, is_absent};
use calls_base::ranges::{NO_BYTES, Range, slice_of};
use calls_base::view::View;
use pe_directories::{TlsDirectory, VaTable};

/// The TLS directory, if it is not absent.
pub fn tls_at(view: &View) -> Result<Option<TlsDirectory>>
    ensures { directory_answer (λ t. t) result ≡ tls_at view.now.bytes.now view.now.image.now
        (directory_sections view.now 9) }
{
    let directory = directory(view.image, TLS_TABLE);
    if is_absent(directory) {
        return Ok(None);
    }
    let tls = TlsDirectory::parse(&image_at(view, directory), directory)?;
    Ok(Some(tls))
}

pub fn callbacks_at(view: &View, tls: &TlsDirectory) -> Result<Option<Range>>
    ensures { directory_answer (λ r. r) result
        ≡ callbacks_at view.now.bytes.now view.now.image.now
        (may_map view.now) tls.now }
{
    if tls.address_of_callbacks == 0 {
        return Ok(None);
    }
    let offset = offset_of_va(view, tls.address_of_callbacks)?;
    Ok(Some(Range {
        offset: offset as u64,
        length: view.bytes.len().saturating_sub(offset) as u64,
    }))
}

/// The next callback of a walk. It is over after an error.
pub fn next_callback(view: &View, walk: &mut Range) -> Result<Option<u64>>
    ensures callback { directory_answer (λ x. x) result
        ≡ step_of (λ x. x) (first_va_in view.now.image.now view.now.bytes.now walk.old) }
    ensures walk { walk.new ≡ left_after walk.old (first_va_in view.now.image.now view.now.bytes.now
        walk.old) }
{
    let range = *walk;
    if range.offset == 0 && range.length == 0 {
        return Ok(None);
    }
    *walk = NO_BYTES;
    let mut table = VaTable::new(slice_of(view.bytes, &range)?, view.image.width == 64);
    let Some(callback) = table.next() else {
        *walk = range;
        return Ok(None);
    };
    let callback = callback?;
    *walk = range_left(range, table.rest());
    Ok(Some(callback))
}
