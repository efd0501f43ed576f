//! Names of source files: the [stream](https://llvm.org/docs/PDB/PdbStream.html#the-string-table) that the info stream names
//! `/names`, texts that end with a zero, each known by its offset. `FileChecksum` has such an offset.
//!
//! Which stream that is, the info stream says after its head: texts, and a hash table of pairs, the offset of a name in these texts
//! and the index of a stream. The pairs are read one after the other, whatever bucket they are in.

ghost use Rattle.std.specs.Prelude.{◌≡◌, ◌+◌, ◌*◌, ◌≤◌, length, IfOk};
ghost use Rattle.pe_core.specs.Bytes.{le};
ghost use Rattle.pe_pdb.specs.Modules.{name_at};
ghost use Rattle.pe_pdb.specs.Names.{first_named, is_text_at, named_stream, names_of, names_view, pairs_start, stream_texts, words_end};
ghost use Rattle.pe_pdb.specs.Refusals.{PdbReturns};

use crate::error::{PdbError, Result, require_bytes, require_record};
use crate::module::name_at;
use pe_core::{read_u8, read_u32};

/// What the names of source files start with.
const SIGNATURE: u32 = 0xEFFE_EFFE;

/// How many bytes come before the texts.
const SIZE_OF_HEADER: usize = 12;

/// Where the info stream has the size of the names of streams.
const STREAM_NAMES: usize = 28;

/// The size of a pair in bytes.
const SIZE_OF_PAIR: usize = 8;

/// The name of the stream of the names of source files, for `named_stream`.
pub const NAMES_STREAM: &[u8] = b"/names";

/// The names of source files.
#[derive(Clone, Copy)]
pub struct Names<'a> {
    /// Which hash function the stream's table is by, 1 or 2. The table, after the texts, is not read.
    pub version: u32,
    /// The texts.
    pub texts: &'a [u8],
}

impl<'a> Names<'a> {
    /// The names of a stream that has these bytes. Errors, in order: `Short` if there are fewer than 12; `NamesSignature`;
    /// `RecordTruncated` if the texts pass the end.
    #[tactic(auto, unfolding(crate::specs::Names::names_of))]
    pub fn parse(bytes: &'a [u8]) -> Result<Names<'a>>
        ensures { PdbReturns names_view result (names_of bytes.entry.now) }
    {
        require_bytes(bytes, 0, SIZE_OF_HEADER)?;
        let signature = read_u32(bytes, 0);
        if signature != SIGNATURE {
            return Err(PdbError::NamesSignature(signature));
        }
        let size = read_u32(bytes, 8) as usize;
        require_record(bytes, SIZE_OF_HEADER, size)?;
        Ok(Names {
            version: read_u32(bytes, 4),
            texts: &bytes[SIZE_OF_HEADER..SIZE_OF_HEADER + size],
        })
    }

    /// The name at an offset in the texts, up to the first zero. An offset inside a text is one too. Error: `Name` if the offset
    /// is past the texts, or no zero follows it.
    pub fn name_at(&self, offset: u32) -> Result<&'a [u8]>
        ensures { PdbReturns (λ b. b.now) result (name_at self.now.texts.now offset) }
    {
        let offset = offset as usize;
        if self.texts.len() < offset {
            return Err(PdbError::Name(offset));
        }
        name_at(self.texts, offset)
    }
}

/// Whether a name stands at an offset in some texts, with a zero after it. It compares no more bytes than the name has, so that
/// names without a zero cost nothing.
#[tactic(auto, unfolding(crate::specs::Names::is_text_at))]
fn is_text_at(texts: &[u8], offset: usize, name: &[u8]) -> bool
    ensures { result ≡ is_text_at texts.now offset name.now }
{
    if texts.len() <= name.len() || offset >= texts.len() - name.len() {
        return false;
    }
    texts.split_at(offset).1.starts_with(name) && read_u8(texts, offset + name.len()) == 0
}

/// The stream of the first of some pairs with a name.
#[tactic(auto, using(crate::proofs::NamedStreams::pairs))]
fn first_named(texts: &[u8], name: &[u8], bytes: &[u8], count: usize, start: usize) -> Option<u32>
    requires { start + 8 * count ≤ length bytes.now }
    ensures { result ≡ first_named texts.now name.now bytes.now count start }
{
    let mut left = count;
    let mut next = start;
    while left > 0 {
        if is_text_at(texts, read_u32(bytes, next) as usize, name) {
            return Some(read_u32(bytes, next + 4));
        }
        left -= 1;
        next += SIZE_OF_PAIR;
    }
    None
}

/// The names of streams, in the info stream.
fn stream_texts(bytes: &[u8]) -> Result<&[u8]>
    ensures value { PdbReturns (λ b. b.now) result (stream_texts bytes.now) }
    ensures inside { IfOk result (λ texts. 32 + length texts.now ≤ length bytes.now) }
{
    let start = STREAM_NAMES + 4;
    require_bytes(bytes, 0, start)?;
    let size = read_u32(bytes, STREAM_NAMES) as usize;
    require_record(bytes, start, size)?;
    Ok(&bytes[start..start + size])
}

/// Where a list of words ends that has their number before it.
fn words_end(bytes: &[u8], offset: usize) -> Result<usize>
    requires { offset ≤ length bytes.now }
    ensures value { PdbReturns (λ n. n) result (words_end bytes.now offset) }
    ensures inside { IfOk result (λ end. end ≤ length bytes.now) }
{
    require_bytes(bytes, offset, 4)?;
    let start = offset + 4;
    let size = 4 * read_u32(bytes, offset) as usize;
    require_record(bytes, start, size)?;
    Ok(start + size)
}

/// Where the pairs start of a hash table.
fn pairs_start(bytes: &[u8], table: usize) -> Result<usize>
    requires { table ≤ length bytes.now }
    ensures value { PdbReturns (λ n. n) result (pairs_start bytes.now table) }
    ensures inside { IfOk result (λ start. start + 8 * le bytes.now table 4 ≤ length bytes.now) }
    ensures head { IfOk result (λ start. table + 8 ≤ length bytes.now) }
{
    require_bytes(bytes, table, 8)?;
    let present = words_end(bytes, table + 8)?;
    let pairs = words_end(bytes, present)?;
    let size = SIZE_OF_PAIR * read_u32(bytes, table) as usize;
    require_record(bytes, pairs, size)?;
    Ok(pairs)
}

/// The index of the stream with a name, by the bytes of the info stream: `NAMES_STREAM` and others. Of several with one name the
/// first pair counts. `None` where there is no such stream. Errors, in order: `Short`, `RecordTruncated` if the names of streams,
/// or one of the lists of the table, pass the end. It takes as many steps as the stream has bytes, times those of the name.
#[tactic(auto, unfolding(crate::specs::Names::named_stream))]
pub fn named_stream(bytes: &[u8], name: &[u8]) -> Result<Option<u32>>
    ensures { PdbReturns (λ o. o) result (named_stream bytes.now name.now) }
{
    let texts = stream_texts(bytes)?;
    let table = STREAM_NAMES + 4 + texts.len();
    let pairs = pairs_start(bytes, table)?;
    let count = read_u32(bytes, table) as usize;
    Ok(first_named(texts, name, bytes, count, pairs))
}
