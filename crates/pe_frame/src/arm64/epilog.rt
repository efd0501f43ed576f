//! The epilogs of a function, by its unwind record: where each starts, and the index of its first unwind code.
//!
//! An epilog undoes the prolog, instruction by instruction, and returns. Its codes stand in the order of its instructions, so
//! that those from its first instruction that has not run on are what is left to be undone. A record has a scope for each
//! epilog, in the order of their starts, or describes the only one, at the end of the function, in its header. See
//! [ARM64 exception handling](https://learn.microsoft.com/cpp/build/arm64-exception-handling#epilog-scopes).

ghost use Rattle.std.specs.Prelude.{◌≡◌, ◌-◌, ◌/◌, ◌&&◌, nat_le, nat_lt, if◌then◌else◌, length, drop, None};
ghost use Rattle.pe_unwind.specs.Arm64Record.{info_view};
ghost use Rattle.pe_frame.specs.Arm64Steps.{last_scope, epilog_at, epilog_start};

use pe_core::read_u32;
use pe_unwind::{Arm64EpilogScope, Arm64UnwindInfo};

/// The size of an epilog scope in bytes.
const SIZE_OF_SCOPE: usize = 4;

/// The bytes of an instruction.
pub(crate) const SIZE_OF_INSTRUCTION: u32 = 4;

/// An epilog that a record describes.
#[derive(Clone, Copy)]
pub(crate) struct Arm64Epilog {
    /// How many instructions of the function are before it. `None` if it ends the function.
    pub(crate) start: Option<u32>,
    /// The index of its first unwind code, in bytes from the record's first code.
    pub(crate) index: u32,
}

/// The last scope that starts at or before a place, which counts instructions.
fn last_scope(scopes: &[u8], place: u32) -> Option<Arm64EpilogScope>
    ensures { result ≡ last_scope scopes.now place (length scopes.now / 4) }
{
    let mut count = scopes.len() / SIZE_OF_SCOPE;
    while count > 0 {
        count -= 1;
        let scope = Arm64EpilogScope(read_u32(scopes, SIZE_OF_SCOPE * count));
        if scope.start_offset_words() / SIZE_OF_INSTRUCTION <= place {
            return Some(scope);
        }
    }
    None
}

/// The one epilog in which a place may be.
fn epilog_at(info: &Arm64UnwindInfo<'_>, place: u32) -> Option<Arm64Epilog>
    ensures { result ≡ epilog_at (info_view info.now) place }
{
    if info.header.epilog_in_header() {
        let index = match info.extension {
            Some(extension) => extension.epilog_count(),
            None => info.header.epilog_count(),
        };
        return Some(Arm64Epilog { start: None, index });
    }
    match last_scope(info.scope_bytes(), place) {
        Some(scope) => Some(Arm64Epilog {
            start: Some(scope.start_offset_words() / SIZE_OF_INSTRUCTION),
            index: scope.start_index(),
        }),
        None => None,
    }
}

/// The same, after a prolog of so many instructions.
pub(crate) fn epilog_after(
    info: &Arm64UnwindInfo<'_>,
    place: u32,
    prolog: usize,
) -> Option<Arm64Epilog>
    ensures { result ≡ (if nat_lt place prolog
        then None else epilog_at (info_view info.now) place) }
{
    if (place as usize) < prolog {
        None
    } else {
        epilog_at(info, place)
    }
}

/// The bytes of the codes from an index on: none, if it is past their end.
pub(crate) fn codes_from(codes: &[u8], index: u32) -> &[u8]
    ensures { result.now ≡ drop index codes.now }
{
    if (index as usize) < codes.len() {
        &codes[index as usize..]
    } else {
        &[]
    }
}

/// The instructions of an epilog: how many of the function are before it, and how many it has without its return.
#[derive(Clone, Copy)]
pub(crate) struct EpilogRange {
    pub(crate) start: usize,
    pub(crate) length: usize,
}

/// Whether a place is in an epilog, or at its return.
pub(crate) fn is_in_epilog(place: usize, epilog: EpilogRange) -> bool
    ensures { result ≡ (nat_le epilog.start place && nat_le (place - epilog.start) epilog.length) }
{
    epilog.start <= place && place - epilog.start <= epilog.length
}

/// How many instructions of a function of so many are before an epilog with so many codes.
pub(crate) fn epilog_start(count: u32, start: Option<u32>, codes: usize) -> usize
    ensures { result ≡ epilog_start count start codes }
{
    match start {
        Some(start) => start as usize,
        None => (count as usize).saturating_sub(codes).saturating_sub(1),
    }
}
