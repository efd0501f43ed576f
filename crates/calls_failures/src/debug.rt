//! Why a debug record is refused, with the numbers of the error: which bytes are needed, which size is too small. The result of a
//! call is one number. This call reads the record again, and says the rest.

ghost use Rattle.std.specs.Prelude.{◌≡◌};
ghost use Rattle.calls_failures.specs.DebugFailures.{data_needed, head_needed, record_numbers, record_refusal};
ghost use Rattle.calls_base.specs.FailureNumbers.{failure_by};

use calls_base::numbers::{
    BAD_MAGIC, DEBUG_DATA, DEBUG_SIZE, ErrorNumbers, Failure, POGO_SIZE, SHORT, failure_with,
    needed_at, no_numbers, numbers, refused, refused_value, u32_there,
};
use calls_base::results::options;
use calls_headers::debug::records::{
    characteristics_of, checksum_of, embedded_of, features_of, key_of, pdb20_of, pogo_of, repro_of,
};
use pe_core::require_bytes;
use pe_records::ImageDebugDirectory;

// The kinds of records, by the numbers that callers pass.
const SYMBOL_KEY: u32 = 0;

const PDB20: u32 = 1;

const VC_FEATURES: u32 = 2;

const CHARACTERISTICS: u32 = 3;

const REPRO: u32 = 4;

const POGO: u32 = 5;

const EMBEDDED_PDB: u32 = 6;

const PDB_CHECKSUM: u32 = 7;

/// The size of a signature in bytes.
const SIZE_OF_SIGNATURE: u64 = 4;

/// What refuses the record of an entry that is read as a record of this kind.
#[tactic(auto, unfolding(crate::specs::DebugFailures::record_refusal))]
pub fn record_refusal(
    bytes: &[u8],
    mode: u32,
    entry: &ImageDebugDirectory,
    kind: u32,
) -> Option<u32>
    ensures { result ≡ record_refusal kind bytes.now mode entry.now }
{
    match kind {
        SYMBOL_KEY => refused(key_of(bytes, mode, entry)),
        PDB20 => refused(pdb20_of(bytes, mode, entry)),
        VC_FEATURES => refused(features_of(bytes, mode, entry)),
        CHARACTERISTICS => refused(characteristics_of(bytes, mode, entry)),
        REPRO => refused(repro_of(bytes, mode, entry)),
        POGO => refused(pogo_of(bytes, mode, entry)),
        EMBEDDED_PDB => refused(embedded_of(bytes, mode, entry)),
        PDB_CHECKSUM => refused(checksum_of(bytes, mode, entry)),
        _ => None,
    }
}

/// What is truncated of a record of this kind at an offset: of PDB 7.0 and 2.0 what follows the signature, where that is there.
#[tactic(auto, unfolding(crate::specs::DebugFailures::head_needed))]
fn head_needed(bytes: &[u8], offset: u32, kind: u32) -> ErrorNumbers
    ensures { result ≡ head_needed kind bytes.now offset }
{
    let place = u64::from(offset);
    let signature_there = require_bytes(bytes, offset as usize, 4).is_ok();
    if kind == SYMBOL_KEY && signature_there {
        needed_at(place + SIZE_OF_SIGNATURE, 20)
    } else if kind == PDB20 && signature_there {
        needed_at(place + SIZE_OF_SIGNATURE, 12)
    } else if kind == VC_FEATURES {
        needed_at(place, 20)
    } else if kind == EMBEDDED_PDB {
        needed_at(place, 8)
    } else {
        needed_at(place, 4)
    }
}

/// How many bytes a record of this kind at an offset has in the file: of Repro the length that it states.
fn data_needed(bytes: &[u8], offset: u32, entry: &ImageDebugDirectory, kind: u32) -> u32
    ensures { result ≡ data_needed kind bytes.now offset entry.now }
{
    if kind == REPRO {
        u32_there(bytes, offset as usize)
    } else {
        entry.size_of_data
    }
}

/// The numbers of the failure of that record.
#[tactic(auto, unfolding(crate::specs::DebugFailures::record_numbers))]
pub fn record_numbers(
    bytes: &[u8],
    mode: u32,
    entry: &ImageDebugDirectory,
    kind: u32,
    number: u32,
) -> ErrorNumbers
    ensures { result ≡ record_numbers kind bytes.now mode entry.now number }
{
    let offset = entry.record_offset(&options(mode));
    match number {
        SHORT => head_needed(bytes, offset, kind),
        BAD_MAGIC => refused_value(u64::from(u32_there(bytes, offset as usize))),
        DEBUG_SIZE | POGO_SIZE => refused_value(u64::from(entry.size_of_data)),
        DEBUG_DATA => numbers(0, u64::from(data_needed(bytes, offset, entry, kind)), 0),
        _ => no_numbers(),
    }
}

/// The failure of that record.
pub fn record_failure(
    bytes: &[u8],
    mode: u32,
    entry: &ImageDebugDirectory,
    kind: u32,
) -> Option<Failure>
    ensures { result ≡ failure_by (record_numbers kind bytes.now mode entry.now)
        (record_refusal kind bytes.now mode entry.now) }
{
    match record_refusal(bytes, mode, entry, kind) {
        Some(number) => {
            let numbers = record_numbers(bytes, mode, entry, kind, number);
            Some(failure_with(number, numbers))
        }
        None => None,
    }
}
