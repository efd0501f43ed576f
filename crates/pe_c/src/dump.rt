//! Calls on minidumps, over calls_stacks.

ghost use Rattle.std.specs.Prelude.{◌≡◌, ◌-◌, ◌^◌, Some};
ghost use Rattle.calls_stacks.specs.Dumps.{DumpHandsOut, DumpHandsOutIf, dump_at, dump_stream_at, dump_text_at};
ghost use Rattle.calls_stacks.specs.DumpRecords.{any_record};
ghost use Rattle.calls_stacks.specs.DumpContexts.{any_context};
ghost use Rattle.calls_stacks.specs.DumpMemory.{memory64_after, memory64_piece, fits, fits_number, FindsRanges, HandsOutRuns};
ghost use Rattle.calls_base.specs.HandsOut.{HandsOutIf};
ghost use Rattle.pe_frame.specs.MemoryLists.{ascend};
ghost use Rattle.pe_stacks.specs.MemoryRuns.{end_low};

use calls_base::image::Image;
use calls_base::ranges::Range;
use calls_base::results::{DONE, NOTHING, OUT_OF_ORDER, ROOM, hand_out_some, number_of};
use calls_stacks::dump::any_record::{AnyRecord, hand_out_record};
use calls_stacks::dump::contexts::{AnyContext, hand_out_context};
use calls_stacks::dump::lists::DumpModule;
use calls_stacks::dump::memory::{DumpPiece, Memory64Walk, next_memory64};
use calls_stacks::dump::memory_runs::{ascend, end_low, put_ranges};
use calls_stacks::dump::records::fits;
use calls_stacks::dump::{
    DumpInfo, dump_at, dump_stream_at, dump_text_at, hand_out_dump, hand_out_dump_if,
};
use pe_core::Error;
use pe_frame::{MemoryList, MemoryPiece};
use pe_minidump::Location;
use pe_stacks::{RangeEntry, put_memory_runs};

/// Reads the header of a minidump, and tests that its directory lies in the bytes.
///
/// Errors: `SHORT` where there are fewer than 32 bytes; `DUMP_SIGNATURE`; `DUMP_VERSION`; `DUMP_DIRECTORY`.
#[unsafe(no_mangle)]
pub extern "C" fn pe_c_dump(bytes: &[u8], out: &mut DumpInfo) -> u32
    ensures { DumpHandsOut result out.old out.new (dump_at bytes.now) }
{
    hand_out_dump(dump_at(bytes), out)
}

/// Returns the range of the stream of a kind, that of the first entry of the kind: `NOTHING` without one. It reads the entries
/// up to that.
///
/// Error: `DUMP_LOCATION` where the directory or the stream does not lie in the bytes.
#[unsafe(no_mangle)]
pub extern "C" fn pe_c_dump_stream(
    bytes: &[u8],
    directory: &Range,
    stream_type: u32,
    out: &mut Range,
) -> u32
    ensures { DumpHandsOutIf result out.old out.new
        (dump_stream_at bytes.now directory.now stream_type) }
{
    hand_out_dump_if(dump_stream_at(bytes, directory, stream_type), out)
}

/// Returns the range of a string, in UTF-16LE without its final zero: a name of a module, of a thread, of a handle. `rva` is
/// what the record says.
///
/// Errors: `DUMP_LOCATION` where its length does not lie in the bytes; `DUMP_TEXT` where it is odd; `DUMP_LOCATION` where the
/// string does not lie in the bytes.
#[unsafe(no_mangle)]
pub extern "C" fn pe_c_dump_text(bytes: &[u8], rva: u64, out: &mut Range) -> u32
    ensures { DumpHandsOut result out.old out.new (dump_text_at bytes.now rva) }
{
    hand_out_dump(dump_text_at(bytes, rva), out)
}

/// Reads the record with an index of a stream, by the kind of the stream, `ThreadListStream` and others; with `DUMP_ENTRIES` for the
/// kind, of the directory. It writes the field of the kind alone. `NOTHING` past the last record, and of another kind. What a stream
/// says in one record has index 0: the exception, the system, the process, and the walk over the memory of a full dump.
///
/// The thread that crashed has two contexts: that of the exception, which is that of the crash, counts before that of the thread.
/// Modules stand in no order, the program mostly first; an image is that of a module if its time stamp and its size are those that
/// stand here. Regions of memory say what memory there was, and have no bytes of it.
///
/// Errors: `DUMP_LOCATION` where the stream does not lie in the bytes. Of threads, modules, names of threads and pieces of memory
/// `SHORT` where their number is truncated; `DUMP_LIST_SIZE` where the stream has another size than that number and so many records.
/// Of unloaded modules, thread information, handles and regions `SHORT` where the header is truncated; `DUMP_ENTRY_SIZE` where the
/// records are smaller than their fields; `DUMP_LIST_SIZE` where they start in the header, or end past the stream. Of the exception
/// `SHORT` where the stream has fewer than 168 bytes, of the system 56, of the process 24. Of a full dump's memory `SHORT` where it
/// has fewer than 16 bytes; `DUMP_LIST_SIZE` where it has another size than so many entries; `DUMP_LOCATION` where the bytes of the
/// pieces end past offset 2^64 - 1.
#[unsafe(no_mangle)]
pub extern "C" fn pe_c_dump_record(
    bytes: &[u8],
    stream: &Range,
    kind: u32,
    index: u64,
    out: &mut AnyRecord,
) -> u32
    ensures { DumpHandsOutIf result out.old out.new
        (any_record kind bytes.now stream.now index out.old) }
{
    hand_out_record(bytes, stream, kind, index, out)
}

/// Reads a context of a machine, 9 for x64 or 12 for ARM64: that of the exception, or of a thread. It writes the field of the machine
/// alone. A thread without a context has a location of no bytes.
///
/// Errors: `DUMP_MACHINE` of another machine; `DUMP_LOCATION` where it does not lie in the bytes; `DUMP_CONTEXT_SIZE` where it has fewer
/// than 1,232 bytes, on ARM64 912; `DUMP_MACHINE` where its flags are of another machine; `DUMP_CONTEXT_FLAGS` where control or
/// integer registers were not saved.
#[unsafe(no_mangle)]
pub extern "C" fn pe_c_read_dump_context(
    bytes: &[u8],
    location: &Location,
    machine: u32,
    out: &mut AnyContext,
) -> u32
    ensures { DumpHandsOut result out.old out.new
        (any_context machine bytes.now location.now out.old) }
{
    hand_out_context(bytes, location, machine, out)
}

/// Reads the next piece of memory of a full dump: `NOTHING` at the end of the walk.
///
/// Error: `SHORT` where the entries do not lie in the bytes, or the next one is truncated. After it the walk is over.
#[unsafe(no_mangle)]
pub extern "C" fn pe_c_next_memory64(
    bytes: &[u8],
    walk: &mut Memory64Walk,
    out: &mut DumpPiece,
) -> u32
    ensures piece { HandsOutIf result out.old out.new (memory64_piece bytes.now walk.old) }
    ensures walk { walk.new ≡ memory64_after bytes.now walk.old }
{
    hand_out_some(next_memory64(bytes, walk), out)
}

/// Writes the memory of pieces in any order to `runs`, as pieces that ascend and do not overlap, and to `written` how many there
/// are: an address is that of the first of the pieces that has it. Two that follow one another in memory and in the file are one.
/// `entries` has to have four entries for each piece, and `runs` two; what is in the entries then is left open, and what follows
/// what was needed is unchanged in both.
///
/// Errors, which change nothing: `SHORT` if a piece ends past offset 2^64 - 1; `ROOM`.
#[unsafe(no_mangle)]
pub extern "C" fn pe_c_memory_runs(
    pieces: &[MemoryPiece],
    entries: &mut [RangeEntry],
    runs: &mut [MemoryPiece],
    written: &mut u64,
) -> u32
    ensures { HandsOutRuns pieces.now result (entries.old, runs.old) (entries.new, runs.new) (written.old, written.new) }
{
    if !end_low(pieces) {
        // Callers get the error's number alone.
        return number_of(&Error::Short { at: 0, needed: 0 });
    }
    match put_memory_runs(pieces, entries, runs) {
        Some(count) => {
            *written = count as u64;
            DONE
        }
        None => ROOM,
    }
}

/// Writes to `found`, for each of the ranges that are asked for, an address and how many bytes from it on at most, the range of
/// `memory` where these bytes are: those of the run that has the address, up to its end. Where no run has it the range has no
/// bytes. `written` is how many. A range ends at the first address of which the dump has no byte, or where the dump has it
/// elsewhere: so the images of modules that the dump's own memory has are found. The pieces are runs, as `pe_c_memory_runs` writes
/// them: they are tested once a call, and a search by halves finds each range.
///
/// Errors, which change nothing: `SHORT` if a piece does not lie in `memory`; `OUT_OF_ORDER` if pieces overlap or do not ascend;
/// `ROOM` where there is room for fewer than are asked for.
#[unsafe(no_mangle)]
pub extern "C" fn pe_c_memory_ranges(
    memory: &[u8],
    pieces: &[MemoryPiece],
    asked: &[Range],
    found: &mut [Range],
    written: &mut u64,
) -> u32
    ensures { FindsRanges memory.now pieces.now asked.now result (found.old, found.new) (written.old, written.new) }
{
    if let Err(error) = MemoryList::new(memory, pieces) {
        return number_of(&error);
    }
    if !ascend(pieces) {
        return OUT_OF_ORDER;
    }
    if found.len() < asked.len() {
        return ROOM;
    }
    put_ranges(memory, pieces, asked, found);
    *written = asked.len() as u64;
    DONE
}

/// Returns `DONE` where an image is that of a module: its time stamp and its size are those of the module. `NOTHING` where it is
/// another one, or has no optional header. The checksum is not asked.
#[unsafe(no_mangle)]
pub extern "C" fn pe_c_is_image_of(image: &Image, module: &DumpModule) -> u32
    ensures { result ≡ fits_number (fits image.now module.now) }
{
    if fits(image, module) { DONE } else { NOTHING }
}
