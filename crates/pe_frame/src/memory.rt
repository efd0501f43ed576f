//! The memory that a step reads: the stack of the thread.

ghost use Rattle.std.specs.Prelude.{◌≡◌, ℕ, Option};
ghost use Rattle.pe_frame.specs.Memory.{stack_word};
ghost use Rattle.pe_frame.specs.MemoryPieces.{known_word};

use pe_core::u64_at;
use pe_lookup::AddressRange;

/// The bytes of a word, which is what a push stores.
pub(crate) const SIZE_OF_WORD: u64 = 8;

/// Memory of a thread, by address. A step asks for its stack alone, eight bytes at a time.
pub trait Memory {
    // The number of the eight bytes at an address, if they are known.
    ghost word: { Self → ℕ → Option ℕ };

    /// The little-endian number of the eight bytes at this address. `None` if they are not all known.
    fn u64_at(&self, address: u64) -> Option<u64>
        ensures { result ≡ word self.now address };
}

/// Memory that is known byte by byte.
pub(crate) trait KnownBytes {
    // The byte at an address, if it is known.
    ghost byte: { Self → ℕ → Option ℕ };

    /// The byte at this address. `None` if it is not known.
    fn byte_at(&self, address: u64) -> Option<u8>
        ensures { result ≡ byte self.now address };
}

/// The little-endian number of the eight bytes at an address. `None` if they are not all known. Out of line, as nearly all words
/// stand in one piece, where one lookup finds them.
#[inline(never)]
pub(crate) fn known_word<B: KnownBytes>(memory: &B, address: u64) -> Option<u64>
    ensures { result ≡ known_word (B.byte memory.now) address }
{
    if address > u64::MAX - (SIZE_OF_WORD - 1) {
        return None;
    }
    let mut bytes = [0; SIZE_OF_WORD as usize];
    for index in 0..SIZE_OF_WORD as usize {
        bytes[index] = memory.byte_at(address + index as u64)?;
    }
    u64_at(&bytes, 0).ok()
}

/// A part of memory as minidumps hold it: bytes, and the address of the first.
#[derive(Clone, Copy)]
pub struct Stack<'a> {
    /// The address of the first byte.
    pub start: u64,
    /// The bytes. Those past address 2^64 - 1 have no address.
    pub bytes: &'a [u8],
}

impl<'a> Memory for Stack<'a> {
    ghost word = { λ s. stack_word s.bytes.now s.start };

    fn u64_at(&self, address: u64) -> Option<u64> {
        if address < self.start || address > u64::MAX - (SIZE_OF_WORD - 1) {
            return None;
        }
        u64_at(self.bytes, (address - self.start) as usize).ok()
    }
}

impl<'a> AddressRange for Stack<'a> {
    ghost use Rattle.std.specs.Prelude.{length};

    ghost start_of = { λ s. s.start };

    ghost size_of = { λ s. length s.bytes.now };

    fn start(&self) -> u64 {
        self.start
    }

    fn size(&self) -> u64 {
        self.bytes.len() as u64
    }
}
