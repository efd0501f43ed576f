//! The file of a PDB, as it was parsed, and the numbers of its directory.

ghost use Rattle.std.specs.Prelude.{◌≡◌, ℕ, ◌+◌, ◌*◌, ◌<◌, ◌≤◌, length};
ghost use Rattle.std.specs.Int.{div_ceil};
ghost use Rattle.pe_pdb.specs.Places.{directory_block, directory_word, map_block};

/// The blocks of a file, and which of them the directory has.
#[derive(Clone, Copy)]
pub(crate) struct BlockMap<'a> {
    /// The bytes of the file.
    pub(crate) file: &'a [u8],
    /// The number of blocks.
    pub(crate) blocks: u32,
    /// How many numbers of 4 bytes a block has. Not its size in bytes, so that nothing has to know that the size is a power of two.
    pub(crate) words: usize,
    /// The number of the directory's blocks.
    pub(crate) count: usize,
    ghost few: { count ≤ 1073741824 },
    ghost has_words: { 0 < words },
    ghost small: { words ≤ 8192 },
    ghost in_file: { blocks * (4 * words) ≤ length file.now },
    ghost in_superblock: { 52 + 4 * div_ceil count words ≤ length file.now },
    ghost mapped: { (k : ℕ) → k < div_ceil count words → map_block file.now k < blocks },
}

/// The file of a PDB: blocks of one size, over which its streams are scattered.
#[derive(Clone, Copy)]
pub struct Msf<'a> {
    pub(crate) map: BlockMap<'a>,
    pub(crate) directory_words: usize,
    ghost few: { directory_words < 1073741824 },
    ghost counted: { map.count ≡ div_ceil directory_words map.words },
    ghost listed: { (k : ℕ) → k < map.count → directory_block map.file.now map.words k < map.blocks },
    ghost streams: { directory_word map.file.now map.words 0 < directory_words },
}
