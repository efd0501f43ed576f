//! Memory as a minidump lists it: the bytes of the file, and of each piece of memory its address and where in the file it is.
//! https://learn.microsoft.com/windows/win32/api/minidumpapiset/ns-minidumpapiset-minidump_memory_descriptor

ghost use Rattle.std.specs.Prelude.{◌≡◌, ◌≤◌, ◌<◌, ◌+◌, ◌-◌, ◌^◌, ℕ, List, ◌∷◌, [], Some, IsTrue, length, slice_index};
ghost use Rattle.std.specs.Option.{option_map};
ghost use Rattle.std.specs.List.{find};
ghost use Rattle.pe_core.specs.Bytes.{holds, le};
ghost use Rattle.pe_core.specs.Refusals.{Short, answer_by, answer_of, outcome};
ghost use Rattle.pe_lookup.specs.AddressRanges.{AreAscending};
ghost use Rattle.pe_frame.specs.MemoryLists.{are_inside, ascend, has_word, listed_byte, listed_word, lists_byte, memory_of};
ghost use Rattle.pe_frame.specs.declared.memory_list.MemoryPiece.{MemoryPiece};

use crate::memory::{KnownBytes, Memory, SIZE_OF_WORD, known_word};
use pe_core::{Result, read_u64, slice_at};
use pe_lookup::{AddressRange, first_overlap, first_with, range_with};

/// A piece of memory: its address, and where its bytes are.
#[repr(C)]
#[derive(Clone, Copy, Debug, Default, PartialEq)]
pub struct MemoryPiece {
    /// The address of the first byte.
    pub start: u64,
    /// Where the first byte is, from the start of the bytes that the list is of.
    pub offset: u64,
    /// In bytes. Those past address 2^64 - 1 have no address.
    pub length: u64,
}

impl AddressRange for MemoryPiece {
    ghost start_of = { λ p. p.start };

    ghost size_of = { λ p. p.length };

    fn start(&self) -> u64 {
        self.start
    }

    fn size(&self) -> u64 {
        self.length
    }
}

/// Memory by a list of its pieces in some bytes, as those of a minidump file. The byte at an address is that of the first
/// piece that has one there, and a word is known if each of its eight bytes is, as in [`StackPieces`](crate::StackPieces).
/// Nothing is copied.
#[derive(Clone, Copy)]
pub struct MemoryList<'a> {
    bytes: &'a [u8],
    pieces: &'a [MemoryPiece],
    /// Whether they are in ascending order and do not overlap.
    is_ascending: bool,
    /// The piece that is asked first: nearly all words of a walk stand in that of its stack pointer.
    near: MemoryPiece,
    /// How many of its addresses one test takes as those of a word of it.
    words: u64,
    ghost ascending: { IsTrue is_ascending → AreAscending (λ p. p.start) (λ p. p.length) pieces.now },
    ghost tested: { is_ascending ≡ ascend pieces.now },
    ghost inside: { IsTrue (are_inside bytes.now pieces.now) },
    ghost asked: { (a : ℕ) → IsTrue (lists_byte a near) → find (lists_byte a) pieces.now ≡ Some near },
    ghost whole: { (k : ℕ) → k < words → IsTrue (has_word (near.start + k) near) },
}

/// Error: `Short` if one of the pieces does not lie in the bytes.
fn require_inside(bytes: &[u8], pieces: &[MemoryPiece]) -> Result<()>
    ensures { answer_of result ≡ outcome ((are_inside bytes.now pieces.now, Short) ∷ []) tt }
{
    for piece in pieces {
        slice_at(bytes, piece.offset as usize, piece.length as usize)?;
    }
    Ok(())
}

/// Whether a piece lies in the bytes.
pub(crate) fn lies_in(bytes: &[u8], piece: &MemoryPiece) -> bool
    ensures { result ≡ holds bytes.now piece.now.offset piece.now.length }
{
    let length = bytes.len() as u64;
    piece.length <= length && piece.offset <= length - piece.length
}

/// Whether the pieces lie in the bytes, are in ascending order and do not overlap: so nearly all lists are, which are tested in one
/// pass.
fn are_in_order(bytes: &[u8], pieces: &[MemoryPiece]) -> bool
    ensures inside { IsTrue result → IsTrue (are_inside bytes.now pieces.now) }
    ensures ascending { IsTrue result → AreAscending (λ p. p.start) (λ p. p.length) pieces.now }
{
    // Of the piece before.
    let mut start = 0;
    let mut size = 0;
    for piece in pieces {
        let next = piece.start;
        if !lies_in(bytes, piece) || next < start || next - start < size {
            return false;
        }
        start = next;
        size = piece.length;
    }
    true
}

/// The first piece of a list. Without one a piece without bytes.
fn first_piece(pieces: &[MemoryPiece]) -> MemoryPiece
    ensures { (a : ℕ) → IsTrue (lists_byte a result) → find (lists_byte a) pieces.now ≡ Some result }
{
    match pieces.split_first() {
        Some((piece, _)) => *piece,
        None => MemoryPiece {
            start: 0,
            offset: 0,
            length: 0,
        },
    }
}

/// How many words start at the first addresses of a piece, one at each, and are whole in it, but for one that ends at the last address.
fn words_of(piece: &MemoryPiece) -> u64
    ensures { (k : ℕ) → k < result → IsTrue (has_word (piece.now.start + k) piece.now) }
{
    let addresses = u64::MAX.saturating_sub(piece.start);
    u64::min(piece.length, addresses).saturating_sub(SIZE_OF_WORD - 1)
}

impl<'a> MemoryList<'a> {
    /// Memory by a list of its pieces in these bytes. Error: `Short` if a piece does not lie in the bytes.
    #[inline(always)]
    pub fn new(bytes: &'a [u8], pieces: &'a [MemoryPiece]) -> Result<MemoryList<'a>>
        ensures { answer_by {Y = List ℕ × List MemoryPiece} (λ s. (s.bytes.now, s.pieces.now)) result
            ≡ memory_of bytes.entry.now pieces.entry.now }
    {
        if are_in_order(bytes, pieces) {
            let near = first_piece(pieces);
            return Ok(MemoryList {
                bytes,
                pieces,
                is_ascending: true,
                near,
                words: words_of(&near),
            });
        }
        require_inside(bytes, pieces)?;
        let is_ascending = first_overlap(pieces).is_none();
        let near = first_piece(pieces);
        Ok(MemoryList {
            bytes,
            pieces,
            is_ascending,
            near,
            words: words_of(&near),
        })
    }

    /// The piece of an address; where none is found by halving, that which was asked first before.
    fn piece_near(&self, address: u64) -> MemoryPiece
        ensures { (a : ℕ) → IsTrue (lists_byte a result) → find (lists_byte a) self.now.pieces.now ≡ Some result }
    {
        if self.is_ascending {
            if let Some(piece) = range_with(self.pieces, address) {
                return *piece;
            }
        }
        self.near
    }

    /// The same memory, for reads near an address: its piece is asked first.
    pub fn near(self, address: u64) -> MemoryList<'a>
        ensures bytes { result.bytes.now ≡ self.entry.bytes.now }
        ensures pieces { result.pieces.now ≡ self.entry.pieces.now }
    {
        let near = self.piece_near(address);
        MemoryList {
            bytes: self.bytes,
            pieces: self.pieces,
            is_ascending: self.is_ascending,
            near,
            words: words_of(&near),
        }
    }

    /// Whether the pieces are in ascending order and do not overlap.
    pub fn is_ascending(&self) -> bool
        ensures { result ≡ ascend self.now.pieces.now }
    {
        self.is_ascending
    }

    /// The first piece that has a byte at an address.
    fn piece_at(&self, address: u64) -> Option<&'a MemoryPiece>
        ensures { option_map (λ p. p.now) result ≡ find (lists_byte address) self.now.pieces.now }
    {
        first_with(self.pieces, self.is_ascending, address)
    }

    /// The word at an address. In pieces that ascend one lookup finds a word that stands in one of them.
    #[inline(never)]
    fn word_elsewhere(&self, address: u64) -> Option<u64>
        ensures { result ≡ listed_word self.now.bytes.now self.now.pieces.now address }
    {
        if self.is_ascending {
            if let Some(piece) = range_with(self.pieces, address) {
                if has_word(piece, address) {
                    return word_of(self.bytes, piece, address);
                }
            }
        }
        known_word(self, address)
    }
}

/// Where in some bytes that of a piece at an address is.
fn index_of(bytes: &[u8], piece: &MemoryPiece, address: u64) -> usize
    requires has { IsTrue (lists_byte address piece.now) }
    requires inside { IsTrue (holds bytes.now piece.now.offset piece.now.length) }
    ensures index { result ≡ piece.now.offset + (address - piece.now.start) }
    ensures within { result < length bytes.now }
{
    let index = piece.offset + (address - piece.start);
    index as usize
}

/// The byte of a piece at an address that it has.
pub(crate) fn byte_of(bytes: &[u8], piece: &MemoryPiece, address: u64) -> Option<u8>
    requires has { IsTrue (lists_byte address piece.now) }
    requires inside { IsTrue (holds bytes.now piece.now.offset piece.now.length) }
    ensures { result ≡ Some (slice_index bytes.now (piece.now.offset + (address - piece.now.start))) }
{
    Some(bytes[index_of(bytes, piece, address)])
}

impl<'a> KnownBytes for MemoryList<'a> {
    ghost byte = { λ s. listed_byte s.bytes.now s.pieces.now };

    fn byte_at(&self, address: u64) -> Option<u8> {
        match self.piece_at(address) {
            Some(piece) => byte_of(self.bytes, piece, address),
            None => None,
        }
    }
}

/// Whether a piece that has a byte at an address has the eight from there on.
pub(crate) fn has_word(piece: &MemoryPiece, address: u64) -> bool
    requires { IsTrue (lists_byte address piece.now) }
    ensures { result ≡ has_word address piece.now }
{
    address <= u64::MAX - (SIZE_OF_WORD - 1)
        && piece.length - (address - piece.start) >= SIZE_OF_WORD
}

/// The number of the eight bytes of a piece from an address on.
pub(crate) fn word_of(bytes: &[u8], piece: &MemoryPiece, address: u64) -> Option<u64>
    requires has { IsTrue (lists_byte address piece.now) }
    requires whole { address + 8 ≤ piece.now.start + piece.now.length }
    requires inside { IsTrue (holds bytes.now piece.now.offset piece.now.length) }
    ensures { result ≡ Some (le bytes.now (piece.now.offset + (address - piece.now.start)) 8) }
{
    Some(read_u64(bytes, index_of(bytes, piece, address)))
}

impl<'a> Memory for MemoryList<'a> {
    ghost word = { λ s. listed_word s.bytes.now s.pieces.now };

    /// A word of the piece that is asked first takes no lookup.
    #[inline(always)]
    fn u64_at(&self, address: u64) -> Option<u64> {
        let start = self.near.start;
        if start <= address && address - start < self.words {
            return word_of(self.bytes, &self.near, address);
        }
        self.word_elsewhere(address)
    }
}
