//! The Rich header, which Microsoft's linker writes between the DOS stub and the PE header: which tools made the objects of the
//! image, and how many objects each. Microsoft does not document it; [this page](https://www.ntcore.com/files/richsign.htm) does.
//!
//! It is the word `DanS`, three words of zeros and entries of 8 bytes, all XORed with a key, then the word `Rich` and the key.
//! Its words are words of the file: at multiples of 4 from its start. The linker takes a checksum as the key: of the DOS header,
//! the DOS stub and the entries.

ghost use Rattle.std.specs.Prelude.{◌≡◌, ◌+◌, ◌*◌, ◌/◌, ◌<◌, ◌≤◌, ◌==◌, bit_xor, length, if◌then◌else◌, IfSome, Some};
ghost use Rattle.std.specs.Option.{option_map};
ghost use Rattle.pe_core.specs.Bytes.{le};
ghost use Rattle.pe_directories.specs.declared.rich_header.TheConstants.{RICH};
ghost use Rattle.pe_directories.specs.RichHeader.{word, starts_with, is_rich, rich_view, rich_from, rich_header, rich_entry, rich_entry_at, stub_share, stub_sum, entry_share, rich_checksum};

use pe_core::read_u32;

/// `DanS`, the first word of the header.
const DANS: u32 = 0x536E_6144;

/// `Rich`, the word before the key.
const RICH: u32 = 0x6863_6952;

/// The size of a word in bytes.
const SIZE_OF_WORD: usize = 4;

/// How many words stand before the entries.
const WORDS_BEFORE_ENTRIES: usize = 4;

/// The size of an entry in bytes.
const SIZE_OF_ENTRY: usize = 8;

/// The offset of the PE pointer in the DOS header, which counts as zeros in the checksum.
const PE_POINTER: usize = 60;

/// The Rich header of an image.
#[derive(Clone, Copy)]
pub struct RichHeader<'a> {
    /// What the header is XORed with: its `checksum()`, if nobody changed it.
    pub key: u32,
    /// The bytes before the header: the DOS header and the DOS stub.
    pub before: &'a [u8],
    /// The entries as they are in the file, 8 bytes each, XORed with the key; see `entry`.
    pub entry_bytes: &'a [u8],
}

/// An entry of a Rich header: a tool, and how many objects of the image it made.
#[repr(C)]
#[derive(Clone, Copy, Debug, PartialEq)]
pub struct RichEntry {
    /// The build of the tool.
    pub build: u16,
    /// Which tool it is.
    pub product: u16,
    /// How many objects it made.
    pub count: u32,
}

/// The word with an index.
fn word(bytes: &[u8], index: usize) -> u32
    requires { 4 * index + 4 ≤ length bytes.now }
    ensures { result ≡ word bytes.now index }
{
    read_u32(bytes, SIZE_OF_WORD * index)
}

/// Whether the words from index `start` on are `DanS` and three zeros, XORed with the key.
fn starts_with(bytes: &[u8], key: u32, start: usize) -> bool
    requires { 4 * start + 16 ≤ length bytes.now }
    ensures { result ≡ starts_with bytes.now key start }
{
    word(bytes, start) == DANS ^ key
        && word(bytes, start + 1) == key
        && word(bytes, start + 2) == key
        && word(bytes, start + 3) == key
}

/// Whether a header starts at the word with index `start` and has its word `Rich` at index `end`.
fn is_rich(bytes: &[u8], start: usize, end: usize) -> bool
    requires start { 4 * start + 8 ≤ length bytes.now }
    requires end { 4 * end + 8 ≤ length bytes.now }
    ensures { result ≡ is_rich bytes.now start end }
{
    start + WORDS_BEFORE_ENTRIES <= end
        && (end - start) % 2 == 0
        && starts_with(bytes, word(bytes, end + 1), start)
}

/// The index of the first word `Rich` from the word with this index on, where `next` is that of the first one after it.
fn next_rich(bytes: &[u8], index: usize, next: Option<usize>) -> Option<usize>
    requires { 4 * index + 4 ≤ length bytes.now }
    ensures { result ≡ (if word bytes.now index == RICH then Some index else next) }
{
    if word(bytes, index) == RICH {
        return Some(index);
    }
    next
}

/// The header that starts at the word with index `start`, if one does. `next` is the index of the next word `Rich`.
#[tactic(auto, unfolding(crate::specs::RichHeader::rich_from))]
fn rich_from(bytes: &[u8], start: usize, next: Option<usize>) -> Option<RichHeader<'_>>
    requires start { 4 * start + 8 ≤ length bytes.now }
    requires next { IfSome next (λ end. 4 * end + 8 ≤ length bytes.now) }
    ensures { option_map rich_view result ≡ rich_from bytes.entry.now start next }
{
    let end = next?;
    if !is_rich(bytes, start, end) {
        return None;
    }
    let entries = SIZE_OF_WORD * (start + WORDS_BEFORE_ENTRIES);
    Some(RichHeader {
        key: word(bytes, end + 1),
        before: &bytes[..SIZE_OF_WORD * start],
        entry_bytes: &bytes[entries..SIZE_OF_WORD * end],
    })
}

impl<'a> RichHeader<'a> {
    /// The Rich header in the bytes before the PE header, for instance those of an image up to `dos_header.pe_pointer`; the
    /// last, if there are several. `None` if there is none. A header starts at a word of the file with `DanS` and three zeros,
    /// XORed with the key after the next word `Rich`. It reads each byte a few times.
    #[tactic(auto, using(crate::proofs::RichHeaders::header_found, crate::proofs::RichHeaders::none_found))]
    pub fn find(bytes: &'a [u8]) -> Option<RichHeader<'a>>
        ensures { option_map rich_view result ≡ rich_header bytes.entry.now }
    {
        let mut left = (bytes.len() / SIZE_OF_WORD).saturating_sub(1);
        let mut next = None;
        while left > 0 {
            left -= 1;
            next = next_rich(bytes, left, next);
            let header = rich_from(bytes, left, next);
            if header.is_some() {
                return header;
            }
        }
        None
    }

    /// The number of entries.
    pub fn len(&self) -> usize
        ensures { result ≡ length self.now.entry_bytes.now / 8 }
    {
        self.entry_bytes.len() / SIZE_OF_ENTRY
    }

    /// The entry with this index. `None` if it is not below `len()`.
    pub fn entry(&self, index: usize) -> Option<RichEntry>
        ensures { result ≡ rich_entry_at (rich_view self.now) index }
    {
        if index < self.len() {
            Some(self.known_entry(index))
        } else {
            None
        }
    }

    /// A word of the entries without the key, by its offset in them.
    fn word(&self, offset: usize) -> u32
        requires { offset + 4 ≤ length self.now.entry_bytes.now }
        ensures { result ≡ bit_xor (le self.now.entry_bytes.now offset 4) self.now.key }
    {
        read_u32(self.entry_bytes, offset) ^ self.key
    }

    /// The entry with an index that the header is known to have.
    #[tactic(auto, unfolding(crate::specs::RichHeader::rich_entry))]
    fn known_entry(&self, index: usize) -> RichEntry
        requires { 8 * index + 8 ≤ length self.now.entry_bytes.now }
        ensures { result ≡ rich_entry (rich_view self.now) index }
    {
        let id = self.word(SIZE_OF_ENTRY * index);
        RichEntry {
            build: (id % 0x1_0000) as u16,
            product: (id / 0x1_0000) as u16,
            count: self.word(SIZE_OF_ENTRY * index + 4),
        }
    }

    /// What the byte at an offset before the header adds to the checksum.
    fn stub_share(&self, offset: usize) -> u32
        requires { offset < length self.now.before.now }
        ensures { result ≡ stub_share self.now.before.now offset }
    {
        if offset >= PE_POINTER && offset < PE_POINTER + 4 {
            return 0;
        }
        u32::from(self.before[offset]).rotate_left((offset % 32) as u32)
    }

    /// What the entry with an index adds to the checksum.
    #[tactic(auto, unfolding(crate::specs::RichHeader::entry_share))]
    fn entry_share(&self, index: usize) -> u32
        requires { 8 * index + 8 ≤ length self.now.entry_bytes.now }
        ensures { result ≡ entry_share (rich_view self.now) index }
    {
        let count = self.word(SIZE_OF_ENTRY * index + 4);
        self.word(SIZE_OF_ENTRY * index).rotate_left(count)
    }

    /// The offset of the header, and what all bytes before it add to the checksum.
    #[tactic(auto, unfolding(pe_core::specs::Rows::each, crate::specs::RichHeader::stub_sum))]
    fn stub_sum(&self) -> u32
        ensures { result ≡ stub_sum self.now.before.now }
    {
        let mut sum = (self.before.len() % 0x1_0000_0000) as u32;
        for offset in 0..self.before.len() {
            sum = sum.wrapping_add(self.stub_share(offset));
        }
        sum
    }

    /// The checksum that the linker takes as the key: the offset of the header, plus each byte before it, rotated left by its
    /// offset, but for the PE pointer, plus the first word of each entry, rotated left by its count.
    #[tactic(auto, unfolding(pe_core::specs::Rows::each, crate::specs::RichHeader::rich_checksum))]
    pub fn checksum(&self) -> u32
        ensures { result ≡ rich_checksum (rich_view self.now) }
    {
        let mut sum = self.stub_sum();
        for index in 0..self.len() {
            sum = sum.wrapping_add(self.entry_share(index));
        }
        sum
    }
}
