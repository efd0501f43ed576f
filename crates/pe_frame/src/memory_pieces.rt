//! Memory in several pieces, as a minidump lists it: the stack of a thread may stand in more than one of them.

ghost use Rattle.std.specs.Prelude.{◌≡◌, ◌-◌, Some, slice_index, IsTrue};
ghost use Rattle.std.specs.Option.{option_map};
ghost use Rattle.std.specs.List.{find};
ghost use Rattle.pe_lookup.specs.AddressRanges.{AreAscending};
ghost use Rattle.pe_frame.specs.MemoryPieces.{piece_size, has_byte, byte_in};

use crate::memory::{KnownBytes, Memory, Stack, known_word};
use pe_lookup::{first_overlap, first_with};

/// Memory in pieces. The byte at an address is that of the first piece that has one there, and a word is known if each of its
/// eight bytes is: pieces that touch hold a word together.
///
/// In pieces in ascending order that do not overlap a byte is found by binary search; in any others they are tested in turn.
#[derive(Clone, Copy)]
pub struct StackPieces<'a> {
    pieces: &'a [Stack<'a>],
    /// Whether they are in ascending order and do not overlap.
    is_ascending: bool,
    ghost ascending: { IsTrue is_ascending → AreAscending (λ s. s.start) piece_size pieces.now },
}

/// The byte of a piece at an address that it has.
fn byte_of(piece: &Stack<'_>, address: u64) -> Option<u8>
    requires { IsTrue (has_byte address piece.now) }
    ensures { result ≡ Some (slice_index piece.now.bytes.now (address - piece.now.start)) }
{
    let index = (address - piece.start) as usize;
    Some(piece.bytes[index])
}

impl<'a> StackPieces<'a> {
    /// Memory in these pieces.
    pub fn new(pieces: &'a [Stack<'a>]) -> StackPieces<'a>
        ensures { result.pieces.now ≡ pieces.entry.now }
    {
        let is_ascending = first_overlap(pieces).is_none();
        StackPieces {
            pieces,
            is_ascending,
        }
    }

    /// The first piece that has a byte at an address.
    fn piece_at(&self, address: u64) -> Option<&'a Stack<'a>>
        ensures { option_map (λ s. s.now) result ≡ find (has_byte address) self.now.pieces.now }
    {
        first_with(self.pieces, self.is_ascending, address)
    }
}

impl<'a> KnownBytes for StackPieces<'a> {
    ghost byte = { λ s. byte_in s.pieces.now };

    #[tactic(auto, using(pe_core::proofs::Map::found_passes))]
    fn byte_at(&self, address: u64) -> Option<u8> {
        match self.piece_at(address) {
            Some(piece) => byte_of(piece, address),
            None => None,
        }
    }
}

impl<'a> Memory for StackPieces<'a> {
    ghost use Rattle.pe_frame.specs.MemoryPieces.{pieces_word};

    ghost word = { λ s. pieces_word s.pieces.now };

    fn u64_at(&self, address: u64) -> Option<u64> {
        known_word(self, address)
    }
}
