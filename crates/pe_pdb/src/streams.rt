//! The [streams](https://llvm.org/docs/PDB/MsfFile.html#the-stream-directory) of a PDB by their index. The directory starts with
//! the number of streams and their sizes; then it lists the blocks of each, without saying where a list starts: after those of all
//! streams before it. So `stream` reads the sizes of these. Who opens many streams writes the starts of all lists into a room once,
//! and opens each by its start.

ghost use Rattle.std.specs.Prelude.{◌≡◌, ◌+◌, ◌*◌, ◌<◌, ◌≤◌, ◌^◌};
ghost use Rattle.pe_pdb.specs.Places.{all_below};
ghost use Rattle.pe_pdb.specs.Msf.{msf_view, word_of};
ghost use Rattle.pe_pdb.specs.Streams.{PutsStarts, blocks_of, list_start, size_of, stream_from, stream_of, stream_view, streams};
ghost use Rattle.pe_pdb.specs.Refusals.{PdbReturns};

use crate::error::{PdbError, Result};
use crate::file::Msf;
use crate::stream::Stream;

/// The size of a stream that was deleted.
const DELETED: u32 = 0xFFFF_FFFF;

impl<'a> Msf<'a> {
    /// The number of streams.
    pub fn streams(&self) -> usize
        ensures value { result ≡ streams (msf_view self.now) }
        ensures listed { result < self.now.directory_words }
    {
        self.word(0) as usize
    }

    /// How many bytes a stream has, which the file is known to have.
    fn size_of(&self, index: usize) -> usize
        requires { index + 1 < self.now.directory_words }
        ensures value { result ≡ size_of (msf_view self.now) index }
        ensures fits { result < 2 ^ 32 }
    {
        let size = self.word(index + 1);
        if size == DELETED { 0 } else { size as usize }
    }

    /// How many blocks it has.
    #[tactic(auto, using(crate::proofs::Blocks::blocks_few))]
    fn blocks_of(&self, index: usize) -> usize
        requires { index + 1 < self.now.directory_words }
        ensures value { result ≡ blocks_of (msf_view self.now) index }
        ensures fits { result ≤ 2 ^ 32 }
    {
        self.size_of(index).div_ceil(4 * self.map.words)
    }

    /// The word of the directory at which the list of its blocks starts.
    #[tactic(auto, using(crate::proofs::StreamLists::start_none, crate::proofs::StreamLists::start_next))]
    fn list_start(&self, index: usize) -> u64
        requires { index + 1 < self.now.directory_words }
        ensures { result ≡ list_start (msf_view self.now) index }
    {
        let mut start = 1 + self.streams() as u64;
        for before in 0..index {
            start += self.blocks_of(before) as u64;
        }
        start
    }

    /// Writes the starts of the lists of all streams into the first entries of a room, and returns how many these are. `Err` of that
    /// number where the room has fewer; then nothing changes.
    #[tactic(auto, using(crate::proofs::StreamLists::start_none, crate::proofs::StreamLists::start_next))]
    pub fn put_starts(&self, room: &mut [u64]) -> std::result::Result<usize, usize>
        ensures { PutsStarts (msf_view self.now) room.old room.new result }
    {
        let count = self.streams();
        if room.len() < count {
            return Err(count);
        }
        let (starts, _) = room.split_at_mut(count);
        let mut start = 1 + count as u64;
        for index in 0..starts.len() {
            starts[index] = start;
            start += self.blocks_of(index) as u64;
        }
        Ok(count)
    }

    /// Whether each of `count` blocks that are listed from a word on is one of the file.
    #[tactic(auto, using(crate::proofs::Blocks::all_tested))]
    fn listed_below(&self, start: usize, count: usize) -> bool
        requires { start + count ≤ self.now.directory_words }
        ensures { result ≡ all_below self.now.map.blocks (λ k. word_of (msf_view self.now) (start + k)) count }
    {
        for index in 0..count {
            if self.word(start + index) >= self.map.blocks {
                return false;
            }
        }
        true
    }

    /// The stream with an index, the list of whose blocks starts at this word of the directory, as `put_starts` writes. Another word
    /// gives other bytes of the file, and is refused as any other list. Errors, in order: `NoStream`; `StreamSize` if it has more
    /// blocks than the file; `Directory` if the list of its blocks passes the end of the directory; `Block` if one of them is not a
    /// block of the file.
    #[tactic(auto, unfolding(crate::specs::Streams::stream_from))]
    pub fn stream_from(&self, index: u32, start: u64) -> Result<Stream<'a>>
        ensures { PdbReturns stream_view result (stream_from (msf_view self.now) index start) }
    {
        let at = index as usize;
        if at >= self.streams() {
            return Err(PdbError::NoStream(index));
        }
        let size = self.size_of(at);
        let count = self.blocks_of(at);
        if count > self.map.blocks as usize {
            return Err(PdbError::StreamSize {
                stream: index,
                size: size as u32,
            });
        }
        if count > self.directory_words || start > (self.directory_words - count) as u64 {
            return Err(PdbError::Directory {
                stream: index,
                words: self.directory_words,
            });
        }
        let first = start as usize;
        if !self.listed_below(first, count) {
            return Err(PdbError::Block(self.map.blocks));
        }
        Ok(Stream {
            msf: *self,
            first,
            size,
        })
    }

    /// The stream with an index. Errors: those of `stream_from`. It reads the sizes of the streams before it.
    #[tactic(auto, unfolding(crate::specs::Streams::stream_from))]
    pub fn stream(&self, index: u32) -> Result<Stream<'a>>
        ensures { PdbReturns stream_view result (stream_of (msf_view self.now) index) }
    {
        let at = index as usize;
        if at >= self.streams() {
            return Err(PdbError::NoStream(index));
        }
        self.stream_from(index, self.list_start(at))
    }
}
