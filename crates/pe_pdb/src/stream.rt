//! A stream of a PDB, as it was opened.

ghost use Rattle.std.specs.Prelude.{◌≡◌, ℕ, ◌+◌, ◌*◌, ◌<◌, ◌≤◌};
ghost use Rattle.std.specs.Int.{div_ceil};
ghost use Rattle.pe_pdb.specs.Places.{directory_word};

use crate::file::Msf;

/// A stream: bytes that are scattered over blocks of the file.
#[derive(Clone, Copy)]
pub struct Stream<'a> {
    pub(crate) msf: Msf<'a>,
    pub(crate) first: usize,
    pub(crate) size: usize,
    ghost listed: { first + div_ceil size (4 * msf.map.words) ≤ msf.directory_words },
    ghost few: { div_ceil size (4 * msf.map.words) ≤ msf.map.blocks },
    ghost below: { (k : ℕ) → k < div_ceil size (4 * msf.map.words) →
        directory_word msf.map.file.now msf.map.words (first + k) < msf.map.blocks },
}
