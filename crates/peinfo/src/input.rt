//! Reads all bytes of a file by a bounded number of reads, so that a file without an end, such as a device, ends in an
//! error.

ghost use Rattle.std.specs.Prelude.{◌≡◌, ◌+◌, ◌≤◌, length, take, drop, vec_len, IfSome, IfOk, IfErr, OnOk};
ghost use Rattle.std.specs.Io.KnownBytes.{Consumes, IsAtEnd};

use std::alloc::{AllocError, Allocator};
use std::io;
use std::io::Read;

/// How often a file is read at most.
pub const MOST_READS: u32 = 1_048_576;

/// How many bytes a read asks for.
pub const PIECE: usize = 65_536;

/// How many zeros are written at a time: few, so that each run of them is one short run of vector code.
const STEP: usize = 1024;

/// Why the bytes could not be read.
#[derive(Debug, Drop, thiserror::Error)]
pub enum ReadError {
    /// A read failed.
    #[error("{0}")]
    Failed(io::Error),
    /// An allocation failed.
    #[error("out of memory")]
    Memory,
    /// The end was not met by `MOST_READS` reads.
    #[error("it does not end")]
    Endless,
}

/// Makes room for a piece after the bytes that are filled.
fn make_room<A: Allocator>(bytes: &mut Vec<u8, A>, filled: usize) -> Result<(), AllocError>
    requires { filled ≤ vec_len bytes.old }
    ensures within { filled ≤ vec_len bytes.new }
    ensures front { take filled bytes.new.items ≡ take filled bytes.old.items }
    ensures room { OnOk result (filled + 65536 ≤ vec_len bytes.new) }
{
    if bytes.len() - filled < PIECE {
        bytes.reserve(PIECE)?;
        for _ in 0..PIECE / STEP {
            bytes.resize(bytes.len() + STEP, 0)?;
        }
    }
    Ok(())
}

/// One read, to after the bytes that are filled.
fn read_after<R: Read>(reader: &mut R, bytes: &mut [u8], filled: usize) -> io::Result<usize>
    requires { filled + 65536 ≤ length bytes.old }
    ensures front { take filled bytes.new ≡ take filled bytes.old }
    ensures fits { IfOk result (λ n. filled + n ≤ length bytes.new) }
    ensures ok { IfOk result (λ n. Consumes (R.remaining reader.old) (R.remaining reader.new)
        (take n (drop filled bytes.new))) }
    ensures end { IfOk result (λ n. n ≡ 0 → IsAtEnd (R.remaining reader.new)) }
{
    reader.read(&mut bytes[filled..filled + PIECE])
}

/// The bytes that are filled, without the room after them.
fn without_room<A: Allocator>(bytes: Vec<u8, A>, filled: usize) -> Vec<u8, A>
    ensures { result.items ≡ take filled bytes.items }
{
    let mut bytes = bytes;
    bytes.truncate(filled);
    bytes
}

ghost use Rattle.peinfo.specs.Reading.{IfEndless};

/// Reads all bytes of the reader, straight to where they stay. A read that fails is not tried again.
///
/// Errors: `Memory` where there is no room for a piece; `Failed` where a read fails; `Endless` after `MOST_READS`
/// reads.
pub fn read_all<A: Allocator, R: Read>(alloc: A, reader: &mut R) -> Result<Vec<u8, A>, ReadError>
    ensures bytes { IfOk result
        (λ bytes. IfSome (R.remaining reader.old) (λ known. bytes.items ≡ known)) }
    ensures endless { IfErr result (λ e. IfEndless e
        (IfSome (R.remaining reader.old) (λ known. 1048576 ≤ length known))) }
{
    let mut bytes = Vec::new(alloc);
    let mut filled = 0;
    for _ in 0..MOST_READS {
        if make_room(&mut bytes, filled).is_err() {
            return Err(ReadError::Memory);
        }
        match read_after(reader, &mut bytes, filled) {
            Ok(0) => return Ok(without_room(bytes, filled)),
            Ok(count) => filled += count,
            Err(error) => return Err(ReadError::Failed(error)),
        }
    }
    Err(ReadError::Endless)
}
