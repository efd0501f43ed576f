//! The file of a PDB, [MSF 7.0](https://llvm.org/docs/PDB/MsfFile.html): blocks of one size, over which streams are scattered. The
//! superblock at its start leads to the directory, which says how long each stream is, and which blocks it has.
//!
//! The directory is scattered over blocks itself, as is the list of its blocks; the superblock lists the blocks of that list, as
//! [`msf.cpp`](https://github.com/microsoft/microsoft-pdb/blob/master/PDB/msf/msf.cpp) has it. Most files have one.

ghost use Rattle.std.specs.Prelude.{◌≡◌, ◌+◌, ◌*◌, ◌/◌, ◌<◌, ◌≤◌, length, true};
ghost use Rattle.std.specs.Int.{div_ceil};
ghost use Rattle.pe_pdb.specs.Places.{all_below, directory_block, directory_word, map_block, place};
ghost use Rattle.pe_pdb.specs.Msf.{MsfView, blocks_for, directory_of, is_block_size, is_magic, is_pdb20, msf_of, msf_view, superblock, superblock_of, view_of};
ghost use Rattle.pe_pdb.specs.Refusals.{PdbReturns};

use crate::error::{PdbError, Result, require_bytes};
use crate::file::{BlockMap, Msf};
use pe_core::{read_u32, read_u64};

/// `Microsof`, as all PDBs with blocks start.
const MICROSOF: u64 = 0x666F_736F_7263_694D;

/// `t C/C++ `.
const T_C_CPP: u64 = 0x202B_2B43_2F43_2074;

/// `MSF 7.00`.
const MSF_7_00: u64 = 0x3030_2E37_2046_534D;

/// The end of the text: a line break, 1Ah, `DS`, three zeros.
const SUFFIX: u64 = 0x0000_0053_441A_0A0D;

/// `program `, in a PDB 2.0.
const PROGRAM: u64 = 0x206D_6172_676F_7270;

/// `database`.
const DATABASE: u64 = 0x6573_6162_6174_6164;

/// `BSJB`, the start of .NET metadata.
const BSJB: u32 = 0x424A_5342;

/// The size of a superblock, with one block of the list of the directory's blocks.
const SIZE_OF_SUPERBLOCK: usize = 56;

/// Where the superblock lists the blocks of that list.
const MAP_OFFSET: usize = 52;

/// The superblock, without its text and without the blocks that it lists.
#[repr(C)]
#[derive(Clone, Copy)]
pub struct SuperBlock {
    /// The size of a block in bytes.
    pub block_size: u32,
    /// The block of the map of free blocks that counts, 1 or 2.
    pub free_block_map: u32,
    /// The number of blocks of the file.
    pub number_of_blocks: u32,
    /// The size of the directory in bytes.
    pub directory_size: u32,
}

/// Whether the file starts with the text of a PDB 7.0.
fn is_magic(bytes: &[u8]) -> bool
    requires { 56 ≤ length bytes.now }
    ensures { result ≡ is_magic bytes.now }
{
    read_u64(bytes, 0) == MICROSOF
        && read_u64(bytes, 8) == T_C_CPP
        && read_u64(bytes, 16) == MSF_7_00
        && read_u64(bytes, 24) == SUFFIX
}

/// Whether it starts as a PDB 2.0.
fn is_pdb20(bytes: &[u8]) -> bool
    requires { 56 ≤ length bytes.now }
    ensures { result ≡ is_pdb20 bytes.now }
{
    read_u64(bytes, 0) == MICROSOF
        && read_u64(bytes, 8) == T_C_CPP
        && read_u64(bytes, 16) == PROGRAM
        && read_u64(bytes, 24) == DATABASE
}

/// Whether blocks may have this size.
fn is_block_size(size: u32) -> bool
    ensures { result ≡ is_block_size size }
{
    matches!(size, 512 | 1024 | 2048 | 4096 | 8192 | 16384 | 32768)
}

impl SuperBlock {
    /// The superblock of a file. Errors, in order: `Short` if there are fewer than 56 bytes; `Pdb20`, `PortablePdb` or `Magic` by
    /// its text; `BlockSize`; `FileSize` if its blocks pass the end of the file.
    #[tactic(auto, unfolding(crate::specs::Msf::superblock))]
    pub fn parse(bytes: &[u8]) -> Result<SuperBlock>
        ensures { PdbReturns (λ s. s) result (superblock_of bytes.now) }
    {
        require_bytes(bytes, 0, SIZE_OF_SUPERBLOCK)?;
        if is_pdb20(bytes) {
            return Err(PdbError::Pdb20);
        }
        if read_u32(bytes, 0) == BSJB {
            return Err(PdbError::PortablePdb);
        }
        if !is_magic(bytes) {
            return Err(PdbError::Magic);
        }
        let block_size = read_u32(bytes, 32);
        if !is_block_size(block_size) {
            return Err(PdbError::BlockSize(block_size));
        }
        let blocks = read_u32(bytes, 40);
        if u64::from(blocks) * u64::from(block_size) > bytes.len() as u64 {
            return Err(PdbError::FileSize {
                blocks,
                length: bytes.len(),
            });
        }
        Ok(SuperBlock {
            block_size,
            free_block_map: read_u32(bytes, 36),
            number_of_blocks: blocks,
            directory_size: read_u32(bytes, 44),
        })
    }
}

/// A block that the superblock lists.
fn map_block(bytes: &[u8], index: usize) -> u32
    requires { 52 + 4 * index + 4 ≤ length bytes.now }
    ensures { result ≡ map_block bytes.now index }
{
    read_u32(bytes, MAP_OFFSET + 4 * index)
}

/// Whether each of the first `count` of them is below a limit.
#[tactic(auto, using(crate::proofs::Blocks::all_tested))]
fn map_below(bytes: &[u8], limit: u32, count: usize) -> bool
    requires { 52 + 4 * count ≤ length bytes.now }
    ensures { result ≡ all_below limit (map_block bytes.now) count }
{
    for index in 0..count {
        if map_block(bytes, index) >= limit {
            return false;
        }
    }
    true
}

impl<'a> BlockMap<'a> {
    /// A block of the directory.
    #[tactic(auto, unfolding(crate::specs::Places::directory_block), using(crate::proofs::Blocks::word_inside))]
    fn directory_block(&self, index: usize) -> u32
        requires { index < self.now.count }
        ensures { result ≡ directory_block self.now.file.now self.now.words index }
    {
        let block = map_block(self.file, index / self.words) as usize;
        read_u32(self.file, 4 * self.words * block + 4 * (index % self.words))
    }

    /// Whether all of them are blocks of the file.
    #[tactic(auto, using(crate::proofs::Blocks::all_tested))]
    fn has_directory(&self) -> bool
        ensures { result ≡ all_below self.now.blocks (directory_block self.now.file.now self.now.words) self.now.count }
    {
        for index in 0..self.count {
            if self.directory_block(index) >= self.blocks {
                return false;
            }
        }
        true
    }

    /// A word of the directory, by its index.
    #[tactic(auto, unfolding(crate::specs::Places::directory_word), using(crate::proofs::Blocks::word_inside))]
    fn directory_word(&self, index: usize) -> u32
        requires listed { index / self.now.words < self.now.count }
        requires inside { directory_block self.now.file.now self.now.words (index / self.now.words) < self.now.blocks }
        ensures { result ≡ directory_word self.now.file.now self.now.words index }
    {
        let block = self.directory_block(index / self.words) as usize;
        read_u32(self.file, 4 * self.words * block + 4 * (index % self.words))
    }
}

impl<'a> Msf<'a> {
    /// The file. Errors, in order: those of `SuperBlock::parse`; `BlockMap` if the directory has more blocks than the file, or
    /// the superblock no room for the blocks that list them; `Block` if one of these, or a block of the directory, is not in the file; `Directory` if the
    /// directory is too short for the sizes of its streams.
    pub fn parse(bytes: &'a [u8]) -> Result<Msf<'a>>
        ensures { PdbReturns msf_view result (msf_of bytes.entry.now) }
    {
        let header = SuperBlock::parse(bytes)?;
        Msf::with_directory(bytes, &header)
    }

    /// The file that has this superblock.
    #[tactic(auto, unfolding(crate::specs::Msf::directory_of))]
    fn with_directory(bytes: &'a [u8], header: &SuperBlock) -> Result<Msf<'a>>
        requires size { is_block_size header.now.block_size ≡ true }
        requires inside { header.now.number_of_blocks * header.now.block_size ≤ length bytes.now }
        ensures { PdbReturns msf_view result (directory_of (view_of bytes.entry.now header.now)) }
    {
        let blocks = header.number_of_blocks;
        let words = header.block_size as usize / 4;
        let directory_words = header.directory_size as usize / 4;
        let count = directory_words.div_ceil(words);
        let maps = count.div_ceil(words);
        if blocks == 0 || (blocks as usize) < count || MAP_OFFSET + 4 * maps > 4 * words {
            return Err(PdbError::BlockMap(header.directory_size));
        }
        if !map_below(bytes, blocks, maps) {
            return Err(PdbError::Block(blocks));
        }
        let map = BlockMap {
            file: bytes,
            blocks,
            words,
            count,
        };
        if !map.has_directory() {
            return Err(PdbError::Block(blocks));
        }
        if directory_words == 0 || map.directory_word(0) as usize >= directory_words {
            return Err(PdbError::Directory {
                stream: 0,
                words: directory_words,
            });
        }
        Ok(Msf {
            map,
            directory_words,
        })
    }

    /// A word of the directory, by its index.
    pub(crate) fn word(&self, index: usize) -> u32
        requires { index < self.now.directory_words }
        ensures { result ≡ directory_word self.now.map.file.now self.now.map.words index }
    {
        self.map.directory_word(index)
    }
}
