//! Memory by a list of its pieces that is not tested first. [`MemoryList`](crate::MemoryList) tests all pieces when it is made: that
//! they lie in the bytes, and whether they ascend. Once it has said that they do, a caller that comes back with the same pieces for
//! each frame of a walk need not have them tested again: here a piece is found by halving, and tested as it is used, so that n frames
//! over m pieces take n log m steps in place of n m.
//!
//! Nothing has to be believed of the list. In ascending pieces that lie in the bytes the memory is that of `MemoryList`. In any
//! others a byte is one of some piece that has its address and lies in the bytes, or it is unknown.

ghost use Rattle.std.specs.Prelude.{◌≡◌, ◌+◌, ◌-◌, ◌≤◌, length};
ghost use Rattle.std.specs.Option.{option_map};
ghost use Rattle.pe_frame.specs.SearchedMemory.{piece_shown, pieces_started, searched_byte, shows_byte};

use crate::memory::{KnownBytes, Memory, known_word};
use crate::memory_list::{MemoryPiece, byte_of, has_word, lies_in, word_of};
use pe_lookup::{has_address, started};

/// Memory by a list of its pieces in some bytes, of which none was tested. The piece for an address is the last that starts at or
/// before it, as a search by halving finds it; it counts if it has the address and lies in the bytes. Nothing is copied.
#[derive(Clone, Copy)]
pub struct SearchedMemory<'a> {
    bytes: &'a [u8],
    pieces: &'a [MemoryPiece],
}

/// How many pieces start at or before an address, where they are sorted.
fn pieces_started(pieces: &[MemoryPiece], address: u64) -> usize
    ensures count { result ≡ pieces_started pieces.now address }
    ensures most { result ≤ length pieces.now }
{
    started(pieces, address)
}

/// Whether a piece has a byte at an address, and lies in the bytes.
fn shows_byte(bytes: &[u8], piece: &MemoryPiece, address: u64) -> bool
    ensures { result ≡ shows_byte bytes.now address piece.now }
{
    has_address(piece, address) && lies_in(bytes, piece)
}

impl<'a> SearchedMemory<'a> {
    /// Memory by a list of its pieces in these bytes. No piece is tested.
    pub fn new(bytes: &'a [u8], pieces: &'a [MemoryPiece]) -> SearchedMemory<'a>
        ensures bytes { result.bytes.now ≡ bytes.entry.now }
        ensures pieces { result.pieces.now ≡ pieces.entry.now }
    {
        SearchedMemory { bytes, pieces }
    }

    /// The piece that has a byte at an address.
    #[tactic(auto, unfolding(crate::specs::SearchedMemory::piece_shown))]
    fn piece_at(&self, address: u64) -> Option<&'a MemoryPiece>
        ensures { option_map (λ p. p.now) result
            ≡ piece_shown self.now.bytes.now self.now.pieces.now address }
    {
        let count = pieces_started(self.pieces, address);
        if count == 0 {
            return None;
        }
        let piece = &self.pieces[count - 1];
        if shows_byte(self.bytes, piece, address) {
            Some(piece)
        } else {
            None
        }
    }
}

impl<'a> KnownBytes for SearchedMemory<'a> {
    ghost byte = { λ s. searched_byte s.bytes.now s.pieces.now };

    fn byte_at(&self, address: u64) -> Option<u8> {
        match self.piece_at(address) {
            Some(piece) => byte_of(self.bytes, piece, address),
            None => None,
        }
    }
}

impl<'a> Memory for SearchedMemory<'a> {
    ghost use Rattle.pe_frame.specs.SearchedMemory.{searched_word};

    ghost word = { λ s. searched_word s.bytes.now s.pieces.now };

    /// One search finds a word that stands in one piece.
    fn u64_at(&self, address: u64) -> Option<u64> {
        if let Some(piece) = self.piece_at(address) {
            if has_word(piece, address) {
                return word_of(self.bytes, piece, address);
            }
        }
        known_word(self, address)
    }
}
