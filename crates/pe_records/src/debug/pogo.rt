//! The record of profile-guided optimization (`IMAGE_DEBUG_TYPE_POGO`): a signature and entries, each the RVA, size
//! and name of a part of the image. A caller iterates over them to see which parts the linker arranged.

ghost use Rattle.std.specs.Prelude.{◌≡◌, ◌≢◌, ◌+◌, ◌-◌, ◌*◌, ◌/◌, ◌<◌, ◌≤◌, ℕ, List, [], Result, length, slice_index, IfSome, IfNone};
ghost use Rattle.std.specs.Iterator.{at_most};
ghost use Rattle.std.specs.Option.{option_map};
ghost use Rattle.pe_core.specs.Options.{default_options};
ghost use Rattle.pe_core.specs.Refusals.{ReturnsAs};
ghost use Rattle.pe_records.specs.DebugRecords.{pogo_view, pogo_of, pogo_record};
ghost use Rattle.pe_records.specs.Pogo.{Reads, ReturnsPogoEntry, pogo_bytes_left};

use crate::debug::ImageDebugDirectory;
use crate::debug::constants::{IMAGE_DEBUG_POGO_SIGNATURE_LTCG, IMAGE_DEBUG_POGO_SIGNATURE_PGU};
use pe_core::{
    Error, ParseOptions, Reason, Result, data_at, read_u32, require_bytes, rounded_up, u32_at,
};

/// Entries are rounded up to a multiple of this many bytes.
const UNIT: usize = 4;

/// A record of profile-guided optimization.
#[derive(Clone, Copy, Debug, Default, PartialEq)]
pub struct POGOInfo<'a> {
    /// 0x4C544347, `LTCG` (`IMAGE_DEBUG_POGO_SIGNATURE_LTCG`), or 0x50475500, `PGU`
    /// (`IMAGE_DEBUG_POGO_SIGNATURE_PGU`).
    pub signature: u32,
    /// The bytes after the signature: the entries.
    pub bytes: &'a [u8],
}

impl<'a> POGOInfo<'a> {
    /// The record at a file offset, in `size` bytes. A record with another signature is `None`, whatever its size.
    #[tactic(auto, unfolding(crate::specs::DebugRecords::pogo_record))]
    fn at(bytes: &'a [u8], offset: usize, size: u32) -> Result<Option<Self>>
        ensures { ReturnsAs
            (option_map pogo_view) result (pogo_record bytes.entry.now offset size) }
    {
        let signature = u32_at(bytes, offset)?;
        if signature != IMAGE_DEBUG_POGO_SIGNATURE_LTCG
            && signature != IMAGE_DEBUG_POGO_SIGNATURE_PGU
        {
            return Ok(None);
        }
        if size <= 4 {
            return Err(Error::Malformed(Reason::PogoSize(size)));
        }
        let bytes = data_at(
            bytes,
            offset + 4,
            size as usize - 4,
            Reason::DebugData(size),
        )?;
        Ok(Some(POGOInfo { signature, bytes }))
    }

    /// The POGO record of the entry, with the default options. Errors: those of `parse_with_opts`.
    pub fn parse(bytes: &'a [u8], idd: &ImageDebugDirectory) -> Result<Option<Self>>
        ensures { ReturnsAs
            (option_map pogo_view) result (pogo_of default_options bytes.entry.now idd.now) }
    {
        POGOInfo::parse_with_opts(bytes, idd, &ParseOptions::default())
    }

    /// The POGO record of the entry. `None` if it has another signature. `bytes` is the whole file.
    ///
    /// Errors, in this order: `Short` if the signature is not in the file; `PogoSize` if the entry's size is at most
    /// 4; `DebugData` if the bytes after the signature are not in the file.
    pub fn parse_with_opts(
        bytes: &'a [u8],
        idd: &ImageDebugDirectory,
        opts: &ParseOptions,
    ) -> Result<Option<Self>>
        ensures { ReturnsAs
            (option_map pogo_view) result (pogo_of opts.now bytes.entry.now idd.now) }
    {
        POGOInfo::at(bytes, idd.record_offset(opts) as usize, idd.size_of_data)
    }

    /// The entries of the record.
    pub fn entries(&self) -> POGOEntryIterator<'a>
        ensures { pogo_bytes_left result ≡ self.now.bytes.now }
    {
        POGOEntryIterator::new(self.bytes)
    }
}

/// An entry of a POGO record: a part of the image, and its name.
#[derive(Clone, Copy, Debug, Default, PartialEq)]
pub struct POGOInfoEntry<'a> {
    /// The RVA of the part.
    pub rva: u32,
    /// The size of the part in bytes.
    pub size: u32,
    /// The name, with the zero byte that ends it.
    pub name: &'a [u8],
}

/// The index of the first zero byte. `None` if there is none.
fn first_zero(bytes: &[u8]) -> Option<usize>
    ensures within { IfSome result (λ k. k < length bytes.now) }
    ensures here { IfSome result (λ k. slice_index bytes.now k ≡ 0) }
    ensures before { IfSome result (λ k. (j : ℕ) → j < k → slice_index bytes.now j ≢ 0) }
    ensures none { IfNone result ((j : ℕ) → j < length bytes.now → slice_index bytes.now j ≢ 0) }
{
    for (i, byte) in bytes.iter().enumerate() {
        if *byte == 0 {
            return Some(i);
        }
    }
    None
}

/// The entry at the start of the bytes, and its size with the padding, in bytes. Errors, in this order: `Short` if
/// there are fewer than eight bytes; `PogoName` if the name is not NUL-terminated or the padding is truncated.
#[tactic(auto, using(crate::proofs::PogoNames::starts_from, crate::proofs::PogoNames::none_short, crate::proofs::PogoNames::none_unterminated, crate::proofs::PogoNames::none_truncated))]
fn entry_at<'a>(bytes: &'a [u8]) -> Result<(POGOInfoEntry<'a>, usize)>
    ensures entry { Reads bytes.entry.now result }
{
    require_bytes(bytes, 0, 8)?;
    let rest = bytes.split_at(8).1;
    let Some(zero) = first_zero(rest) else {
        return Err(Error::Malformed(Reason::PogoName {
            needed: rounded_up(bytes.len() + 1, UNIT),
            length: bytes.len(),
        }));
    };
    let end = rounded_up(8 + zero + 1, UNIT);
    if bytes.len() < end {
        return Err(Error::Malformed(Reason::PogoName {
            needed: end,
            length: bytes.len(),
        }));
    }
    let entry = POGOInfoEntry {
        rva: read_u32(bytes, 0),
        size: read_u32(bytes, 4),
        name: rest.split_at(zero + 1).0,
    };
    Ok((entry, end))
}

/// The entries that are left of a record. A rest that starts with no entry is one item: `Short` if it has fewer than
/// eight bytes, else `PogoName`.
#[derive(Clone, Copy, Debug)]
pub struct POGOEntryIterator<'a> {
    bytes: &'a [u8],
}

impl<'a> POGOEntryIterator<'a> {
    /// The entries of these bytes, which follow the signature of a record.
    pub fn new(bytes: &'a [u8]) -> Self
        ensures { pogo_bytes_left result ≡ bytes.entry.now }
    {
        POGOEntryIterator { bytes }
    }
}

impl<'a> Iterator for POGOEntryIterator<'a> {
    type Item = Result<POGOInfoEntry<'a>>;

    ghost next_gives = { λ s r t. ReturnsPogoEntry (pogo_bytes_left s) r (pogo_bytes_left t) };

    ghost remaining = { λ s. at_most (length (pogo_bytes_left s)) };

    fn next(&mut self) -> Option<Result<POGOInfoEntry<'a>>> {
        let bytes = self.bytes;
        if bytes.is_empty() {
            return None;
        }
        match entry_at(bytes) {
            Ok((entry, end)) => {
                self.bytes = bytes.split_at(end).1;
                Some(Ok(entry))
            }
            Err(error) => {
                self.bytes = &[];
                Some(Err(error))
            }
        }
    }
}
