//! The bytes of a stream. They stand in the file in blocks, which may be anywhere. `piece_at` returns those from an offset up to the
//! end of their block, in place; `read_at` copies any of them into a room; `contiguous` says where in the file all of them stand in
//! their order, if they do, as they do in what most linkers write. What reads records above takes a slice, of either.

ghost use Rattle.std.specs.Prelude.{◌≡◌, ◌+◌, ◌-◌, ◌*◌, ◌/◌, ◌%◌, ◌<◌, ◌≤◌, ◌^◌, ◌==◌, length};
ghost use Rattle.std.specs.Int.{div_ceil};
ghost use Rattle.pe_core.specs.Bytes.{range};
ghost use Rattle.pe_pdb.specs.Places.{directory_word};
ghost use Rattle.pe_pdb.specs.Msf.{msf_view, word_of};
ghost use Rattle.pe_pdb.specs.Streams.{CopiesStream, block_start, contiguous_of, follow_on, left_in_block, stream_bytes, stream_view};

use crate::error::{PdbError, Result};
use crate::stream::Stream;
use pe_core::{ByteRange, set_slice};

impl<'a> Stream<'a> {
    /// How many bytes it has.
    #[tactic(auto, using(crate::proofs::StreamBytes::length_stream))]
    pub fn len(&self) -> usize
        ensures { result ≡ length (stream_bytes (stream_view self.now)) }
    {
        self.size
    }

    /// Whether it has none.
    pub fn is_empty(&self) -> bool
        ensures { result ≡ (length (stream_bytes (stream_view self.now)) == 0) }
    {
        self.len() == 0
    }

    /// Where a block of it stands in the file.
    fn block_start(&self, index: usize) -> usize
        requires { index < div_ceil self.now.size (4 * self.now.msf.map.words) }
        ensures value { result ≡ block_start (stream_view self.now) index }
        ensures inside { result + 4 * self.now.msf.map.words ≤ length self.now.msf.map.file.now }
    {
        4 * self.msf.map.words * self.msf.word(self.first + index) as usize
    }

    /// The bytes from an offset up to the end of their block, or of the stream. None at or past the end of the stream.
    pub fn piece_at(&self, offset: usize) -> &'a [u8]
        ensures bytes { result.now ≡ range (stream_bytes (stream_view self.now)) offset (left_in_block (stream_view self.now) offset) }
        ensures length { length result.now ≡ left_in_block (stream_view self.now) offset }
    {
        if offset >= self.size {
            return &[];
        }
        let block_size = 4 * self.msf.map.words;
        let start = self.block_start(offset / block_size) + offset % block_size;
        let length = (block_size - offset % block_size).min(self.size - offset);
        &self.msf.map.file[start..start + length]
    }

    /// Copies the bytes from an offset on into all of a room. Error: `Outside`; then nothing changes.
    pub fn read_at(&self, offset: usize, room: &mut [u8]) -> Result<()>
        ensures { CopiesStream (stream_view self.now) offset room.old room.new result }
    {
        if self.size < room.len() || offset > self.size - room.len() {
            return Err(PdbError::Outside {
                offset,
                needed: room.len(),
                length: self.size,
            });
        }
        let mut done = 0;
        while done < room.len() {
            let piece = self.piece_at(offset + done);
            let length = piece.len().min(room.len() - done);
            set_slice(room, done, &piece[..length]);
            done += length;
        }
        Ok(())
    }

    /// Whether its blocks follow one another in the file.
    fn follow_on(&self, count: usize) -> bool
        requires { count ≡ div_ceil self.now.size (4 * self.now.msf.map.words) }
        ensures { result ≡ follow_on (stream_view self.now) count }
    {
        for index in 0..count {
            let block = u64::from(self.msf.word(self.first + index));
            if block != u64::from(self.msf.word(self.first)) + index as u64 {
                return false;
            }
        }
        true
    }

    /// The range of the file that has all of its bytes in their order. `None` if its blocks do not follow one another.
    pub fn contiguous(&self) -> Option<ByteRange>
        ensures { result ≡ contiguous_of (stream_view self.now) }
    {
        if !self.follow_on(self.size.div_ceil(4 * self.msf.map.words)) {
            return None;
        }
        let offset = if self.size == 0 {
            0
        } else {
            self.block_start(0)
        };
        Some(ByteRange {
            offset,
            length: self.size,
        })
    }
}
