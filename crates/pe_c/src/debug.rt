//! Calls on the debug directory and its records, over calls_headers.

ghost use Rattle.std.specs.Prelude.{◌≡◌};
ghost use Rattle.pe_records.specs.declared.debug.constants.TheConstants.{IMAGE_DEBUG_TYPE_CODEVIEW, IMAGE_DEBUG_TYPE_EMBEDDEDPORTABLEPDB, IMAGE_DEBUG_TYPE_EX_DLLCHARACTERISTICS, IMAGE_DEBUG_TYPE_PDBCHECKSUM, IMAGE_DEBUG_TYPE_POGO, IMAGE_DEBUG_TYPE_REPRO, IMAGE_DEBUG_TYPE_VC_FEATURE};
ghost use Rattle.calls_headers.specs.Debug.{characteristics_of, checksum_of, embedded_of, features_of, key_of, pdb20_of, pogo_of, read_by_type, read_first, repro_of, codeview_at, StepsPogoEntries};
ghost use Rattle.calls_base.specs.HandsOut.{HandsOutIf, result_number};
ghost use Rattle.calls_base.specs.Views.{directory_sections};
ghost use Rattle.pe_records.specs.DebugDirectory.{debug_entry_at};
ghost use Rattle.calls_base.specs.Walks.{next_of, walk_of};
ghost use Rattle.calls_base.specs.Lists.{HandsOutList, Numbered};

use calls_base::lists::{Steps, hand_out_list};
use calls_base::ranges::Range;
use calls_base::results::{DONE, hand_out_some, number_of};
use calls_base::view::View;
use calls_headers::debug::records::{SymbolKey, codeview};
use calls_headers::debug::walks::{PogoEntries, PogoEntry, next_debug_entry};
use calls_headers::debug::{
    DebugRecords, by_type, first_entries, first_key, read_records, refuse_records,
};
use pe_records::ImageDebugDirectory;

/// Returns the symbol key, by which symbol servers file the symbols of an image: that of the first CodeView entry, alone, which is
/// the field `key` of what `pe_c_debug_data` reads.
///
/// Errors: those of `pe_c_debug_entries`, and those of `key` of `pe_c_debug_record`.
#[unsafe(no_mangle)]
pub extern "C" fn pe_c_symbol_key(view: &View, out: &mut SymbolKey) -> u32
    ensures { HandsOutIf result out.old out.new
        (read_first key_of IMAGE_DEBUG_TYPE_CODEVIEW view.now.bytes.now view.now.image.now
        (directory_sections view.now 6)) }
{
    hand_out_some(first_key(view), out)
}

/// Reads the record of the first entry of each type. Always returns `DONE`: each record has a result of its own, that of
/// `pe_c_debug_entries`, and then that of `pe_c_debug_record`. A truncated last entry is none.
#[unsafe(no_mangle)]
pub extern "C" fn pe_c_debug_data(view: &View, out: &mut DebugRecords) -> u32
    ensures done { result ≡ DONE }
    ensures key { HandsOutIf out.new.key_result out.old.key out.new.key
        (read_first key_of IMAGE_DEBUG_TYPE_CODEVIEW view.now.bytes.now view.now.image.now
        (directory_sections view.now 6)) }
    ensures pdb20 { HandsOutIf out.new.pdb20_result out.old.pdb20 out.new.pdb20
        (read_first pdb20_of IMAGE_DEBUG_TYPE_CODEVIEW view.now.bytes.now view.now.image.now
        (directory_sections view.now 6)) }
    ensures repro { HandsOutIf out.new.repro_result out.old.repro out.new.repro
        (read_first repro_of IMAGE_DEBUG_TYPE_REPRO view.now.bytes.now view.now.image.now
        (directory_sections view.now 6)) }
    ensures pogo { HandsOutIf out.new.pogo_result out.old.pogo out.new.pogo
        (read_first pogo_of IMAGE_DEBUG_TYPE_POGO view.now.bytes.now view.now.image.now
        (directory_sections view.now 6)) }
    ensures embedded { HandsOutIf out.new.embedded_result out.old.embedded out.new.embedded
        (read_first embedded_of IMAGE_DEBUG_TYPE_EMBEDDEDPORTABLEPDB view.now.bytes.now view.now.image.now
        (directory_sections view.now 6)) }
    ensures checksum { HandsOutIf out.new.checksum_result out.old.checksum out.new.checksum
        (read_first checksum_of IMAGE_DEBUG_TYPE_PDBCHECKSUM view.now.bytes.now view.now.image.now
        (directory_sections view.now 6)) }
    ensures features { HandsOutIf out.new.features_result out.old.features out.new.features
        (read_first features_of IMAGE_DEBUG_TYPE_VC_FEATURE view.now.bytes.now view.now.image.now
        (directory_sections view.now 6)) }
    ensures characteristics { HandsOutIf out.new.characteristics_result out.old.characteristics out.new.characteristics
        (read_first characteristics_of IMAGE_DEBUG_TYPE_EX_DLLCHARACTERISTICS view.now.bytes.now view.now.image.now
        (directory_sections view.now 6)) }
{
    match first_entries(view) {
        Ok(entries) => read_records(view.bytes, view.image.mode, &entries, out),
        Err(error) => refuse_records(number_of(&error), out),
    }
    DONE
}

/// Reads the record of an entry of the caller's, in a mode, by the type that the entry says: two of CodeView, one of each other
/// type here. Always returns `DONE`: each record has a result of its own, `NOTHING` of another type.
///
/// Errors: of `key`, and of `pdb20`, `DEBUG_SIZE` where the entry's size is below 24, and below 16, in strict mode, and `NOTHING` in
/// permissive mode; `SHORT` of the first 24 bytes, and 16; `DEBUG_DATA` of the name; `NOTHING` where the record is not one of PDB 7.0,
/// and of PDB 2.0. Of `repro` `SHORT` of the hash's length, `DEBUG_DATA` of the hash. Of `pogo` `SHORT` of the signature, and `NOTHING`
/// where it is another; `POGO_SIZE` where the entry's size is at most 4; `DEBUG_DATA` of the entries. Of `embedded` `DEBUG_SIZE` where
/// the entry's size is below 8; `SHORT` of the first 8 bytes; `BAD_MAGIC`; `DEBUG_DATA` of the compressed data. Of `checksum`
/// `DEBUG_DATA`; `DEBUG_SIZE` where no zero ends the name of the algorithm. Of `features` and `characteristics` `SHORT`, whatever the
/// entry's size is.
#[unsafe(no_mangle)]
pub extern "C" fn pe_c_debug_record(
    bytes: &[u8],
    mode: u32,
    entry: &ImageDebugDirectory,
    out: &mut DebugRecords,
) -> u32
    ensures done { result ≡ DONE }
    ensures key { HandsOutIf out.new.key_result out.old.key out.new.key
        (read_by_type key_of IMAGE_DEBUG_TYPE_CODEVIEW bytes.now mode entry.now) }
    ensures pdb20 { HandsOutIf out.new.pdb20_result out.old.pdb20 out.new.pdb20
        (read_by_type pdb20_of IMAGE_DEBUG_TYPE_CODEVIEW bytes.now mode entry.now) }
    ensures repro { HandsOutIf out.new.repro_result out.old.repro out.new.repro
        (read_by_type repro_of IMAGE_DEBUG_TYPE_REPRO bytes.now mode entry.now) }
    ensures pogo { HandsOutIf out.new.pogo_result out.old.pogo out.new.pogo
        (read_by_type pogo_of IMAGE_DEBUG_TYPE_POGO bytes.now mode entry.now) }
    ensures embedded { HandsOutIf out.new.embedded_result out.old.embedded out.new.embedded
        (read_by_type embedded_of IMAGE_DEBUG_TYPE_EMBEDDEDPORTABLEPDB bytes.now mode entry.now) }
    ensures checksum { HandsOutIf out.new.checksum_result out.old.checksum out.new.checksum
        (read_by_type checksum_of IMAGE_DEBUG_TYPE_PDBCHECKSUM bytes.now mode entry.now) }
    ensures features { HandsOutIf out.new.features_result out.old.features out.new.features
        (read_by_type features_of IMAGE_DEBUG_TYPE_VC_FEATURE bytes.now mode entry.now) }
    ensures characteristics { HandsOutIf out.new.characteristics_result out.old.characteristics out.new.characteristics
        (read_by_type characteristics_of IMAGE_DEBUG_TYPE_EX_DLLCHARACTERISTICS bytes.now mode entry.now) }
{
    read_records(bytes, mode, &by_type(entry), out);
    DONE
}

/// Reads a CodeView record alone, as a minidump has one of each module: `NOTHING` where it is not one of PDB 7.0. Other
/// debug data, and damage there, make no difference.
///
/// Errors: `SHORT` where the range is not inside the bytes; `DEBUG_SIZE` where it has fewer than 24 bytes.
#[unsafe(no_mangle)]
pub extern "C" fn pe_c_codeview(bytes: &[u8], record: &Range, out: &mut SymbolKey) -> u32
    ensures { HandsOutIf result out.old out.new (codeview_at bytes.now record.now) }
{
    hand_out_some(codeview(bytes, record), out)
}

/// Reads the next entry of the debug directory: `NOTHING` at the end of the walk.
///
/// Errors: `SHORT` where the walk is not inside the bytes, or an entry is truncated. After it the walk is over.
#[unsafe(no_mangle)]
pub extern "C" fn pe_c_next_debug_entry(
    bytes: &[u8],
    walk: &mut Range,
    out: &mut ImageDebugDirectory,
) -> u32
    ensures entry { HandsOutIf result out.old out.new
        (next_of (debug_entry_at 0) 28 bytes.now walk.old) }
    ensures walk { walk.new ≡ walk_of 28 bytes.now walk.old }
{
    hand_out_some(next_debug_entry(bytes, walk), out)
}

/// Lists the entries of a POGO record, as `pe_c_next_pogo_entry` returns them, and moves the walk past them.
///
/// Errors: `ROOM` where `entries` is empty; those of `pe_c_next_pogo_entry`.
#[unsafe(no_mangle)]
pub extern "C" fn pe_c_list_pogo_entries(
    bytes: &[u8],
    walk: &mut Range,
    entries: &mut [PogoEntry],
    written: &mut u64,
) -> u32
    ensures { HandsOutList (Numbered result_number (StepsPogoEntries bytes.now))
        result walk.old walk.new entries.old entries.new written.old written.new }
{
    hand_out_list(&PogoEntries { bytes }, walk, entries, written)
}
