//! Calls on headers, section maps, objects and TE images, over calls_headers.

ghost use Rattle.std.specs.Prelude.{◌*◌, Ok, ◌≡◌};
ghost use Rattle.calls_base.specs.HandsOut.{HandsOut, HandsOutIf, result_number};
ghost use Rattle.calls_headers.specs.Headers.{headers_at, rich_at, rich_entry_at, long_name_at, long_name_by_index, PutsTeSections, te_debug_range, te_image_at};
ghost use Rattle.calls_base.specs.Images.{image_at, PutsSections};
ghost use Rattle.calls_base.specs.Views.{map_of};
ghost use Rattle.pe_core.specs.TeImages.{reduced};
ghost use Rattle.pe_records.specs.DebugDirectory.{debug_entry_at};
ghost use Rattle.calls_base.specs.Walks.{next_of, walk_of};
ghost use Rattle.calls_headers.specs.Coff.{coff_strings_at, object_at, symbol_at, symbol_name_at, symbols_after, symbols_at, StepsNamedSymbols};
ghost use Rattle.calls_base.specs.Lists.{HandsOutList, Numbered, StepsByIndex};
ghost use Rattle.pe_c.specs.HeadersRead.{image_range};

pub mod maps;

use calls_base::image::{Image, read_image, sections_into};
use calls_base::lists::{Steps, hand_out_list};
use calls_base::ranges::{Range, slice_of};
use calls_base::results::{DONE, NOTHING, ROOM, hand_out, hand_out_some, number_of};
use calls_base::text_runs::Run;
use calls_base::view::{View, map_by};
use calls_headers::coff::{
    Alone, NamedSymbol, NamedSymbolWalk, Symbol, SymbolWalk, Together, coff_strings_at, list_alone,
    next_symbol, object_at, symbol_at, symbol_name_at, symbols_at, texts_of,
};
use calls_headers::debug::table_of;
use calls_headers::headers::{CoffFields, Headers, overlay_at, read_headers};
use calls_headers::rich_header::{RichHeader, next_rich_entry, rich_at};
use calls_headers::section_names;
use calls_headers::section_names::{long_name_at, next_sections, strings_at};
use calls_headers::te::{
    TeImage, next_te_debug_entry, put_sections, reduced, te_debug_range, te_image_at,
};
use pe_core::{Error, SIZE_OF_TE_HEADER, SectionTable, require_bytes};
use pe_directories::RichEntry;
use pe_records::ImageDebugDirectory;

/// Reads all numbers of the headers of an image, which stand at the same offsets in a file and in memory.
///
/// Errors are those of `pe_c_image`.
#[unsafe(no_mangle)]
pub extern "C" fn pe_c_headers(bytes: &[u8], mode: u32, out: &mut Headers) -> u32
    ensures { HandsOut result out.old out.new (headers_at bytes.now mode) }
{
    hand_out(read_headers(bytes, mode), out)
}

/// Reads the headers of an image, which stand at the same offsets in a file and in memory. The calls that take `out`
/// read in the same mode.
///
/// Errors: `SHORT`, `BAD_MAGIC` of the DOS header; `HEADER_POINTER` in strict mode; `SHORT`, `BAD_MAGIC` of the PE
/// signature; `SHORT` of the COFF header; `SHORT`, `BAD_MAGIC` of the optional header; `SHORT` of its fields and
/// directories.
#[unsafe(no_mangle)]
pub extern "C" fn pe_c_image(bytes: &[u8], mode: u32, out: &mut Image) -> u32
    ensures { HandsOut result out.old out.new (image_at bytes.now mode) }
{
    hand_out(read_image(bytes, mode), out)
}

/// Writes the section headers to the start of `room`. The rest of `room` is unchanged, and all of it after an error.
///
/// Errors: `ROOM` where `room` has fewer entries than the image has sections; `SHORT` where the section headers are
/// truncated.
#[unsafe(no_mangle)]
pub extern "C" fn pe_c_sections(bytes: &[u8], image: &Image, room: &mut [SectionTable]) -> u32
    ensures { PutsSections bytes.now image.now result room.old room.new }
{
    let count = usize::from(image.number_of_sections);
    sections_into(bytes, image.sections_offset as usize, count, room)
}

/// Returns the file offset of an RVA, by the first section that covers it: `NOTHING` where none does, or the file
/// alignment is not a power of two. In an image as loaded an RVA is its own offset. The offset may be past the end of
/// the bytes.
#[unsafe(no_mangle)]
pub extern "C" fn pe_c_offset(view: &View, rva: u32, out: &mut u64) -> u32
    ensures { HandsOutIf result out.old out.new (Ok (map_of view.now rva)) }
{
    match map_by(view, rva) {
        Some(offset) => {
            *out = offset as u64;
            DONE
        }
        None => NOTHING,
    }
}

/// Reads the header of a TE image, the 40 bytes at its start.
///
/// Errors: `SHORT`; `BAD_MAGIC`; `TE_SIZE` where fewer than 40 bytes were stripped.
#[unsafe(no_mangle)]
pub extern "C" fn pe_c_te(bytes: &[u8], out: &mut TeImage) -> u32
    ensures { HandsOut result out.old out.new (te_image_at bytes.now) }
{
    hand_out(te_image_at(bytes), out)
}

/// Writes the section headers of a TE image to the start of `room`, `number_of_sections` of them, each with its RVA and its raw
/// pointer reduced by `rva_offset`. The rest of `room` is unchanged, and all of it after an error.
///
/// Errors: `ROOM` where `room` has fewer entries than the image has sections; `SHORT` where the section headers are
/// truncated.
#[tactic(auto, using(calls_headers::proofs::TeRooms::no_te_sections))]
#[unsafe(no_mangle)]
pub extern "C" fn pe_c_te_sections(bytes: &[u8], te: &TeImage, room: &mut [SectionTable]) -> u32
    ensures { PutsTeSections bytes.now te.now result room.old room.new }
{
    let count = usize::from(te.number_of_sections);
    if room.len() < count {
        return ROOM;
    }
    // Without sections the bytes may end anywhere.
    if count == 0 {
        return DONE;
    }
    match require_bytes(bytes, usize::from(SIZE_OF_TE_HEADER), 40 * count) {
        Ok(()) => {
            put_sections(bytes, te.rva_offset, count, room);
            DONE
        }
        Err(error) => number_of(&error),
    }
}

/// Returns the entries of the debug directory of a TE image as a walk for `pe_c_next_te_debug_entry`: `NOTHING` where the
/// directory is absent. The records that the entries lead to are not read.
///
/// Error: `DEBUG_BOUNDS` where the entries end past the end of the bytes.
#[unsafe(no_mangle)]
pub extern "C" fn pe_c_te_debug_entries(bytes: &[u8], te: &TeImage, out: &mut Range) -> u32
    ensures { HandsOutIf result out.old out.new (te_debug_range bytes.now te.now) }
{
    hand_out_some(te_debug_range(bytes, te), out)
}

/// Reads the next entry of the debug directory of a TE image, with the RVA and the file offset of its record reduced by
/// `rva_offset`: `NOTHING` at the end of the walk. A call that reads the record of an entry takes it in mode `MAPPED`.
///
/// Errors: `SHORT` where the walk is not inside the bytes, or an entry is truncated. After it the walk is over.
#[unsafe(no_mangle)]
pub extern "C" fn pe_c_next_te_debug_entry(
    bytes: &[u8],
    te: &TeImage,
    walk: &mut Range,
    out: &mut ImageDebugDirectory,
) -> u32
    ensures entry { HandsOutIf result out.old out.new
        (next_of (debug_entry_at te.now.rva_offset) 28 bytes.now walk.old) }
    ensures walk { walk.new ≡ walk_of 28 bytes.now walk.old }
{
    hand_out_some(next_te_debug_entry(bytes, te, walk), out)
}

/// Reads the header of a COFF object, the 20 bytes at its start. Any bytes are such a header: a caller looks at `machine`.
///
/// Error: `SHORT`.
#[unsafe(no_mangle)]
pub extern "C" fn pe_c_coff(bytes: &[u8], out: &mut CoffFields) -> u32
    ensures { HandsOut result out.old out.new (object_at bytes.now) }
{
    hand_out(object_at(bytes), out)
}

/// Returns a walk over the symbols of an object or of an image, with the range of their table: `NOTHING` where the header's
/// pointer to them is 0.
///
/// Error: `SHORT` where the table is truncated; a pointer past the end of the bytes is `SHORT` even with 0 entries.
#[unsafe(no_mangle)]
pub extern "C" fn pe_c_coff_symbols(bytes: &[u8], coff: &CoffFields, out: &mut SymbolWalk) -> u32
    ensures { HandsOutIf result out.old out.new (symbols_at bytes.now coff.now) }
{
    hand_out_some(symbols_at(bytes, coff), out)
}

/// Returns the string table of an object or of an image, from its size field on, which follows the symbols: `NOTHING` where
/// the header's pointer to these is 0, or where the bytes end after them.
///
/// Errors: `SHORT` where the symbols are truncated; `STRING_TABLE` where the string table is.
#[unsafe(no_mangle)]
pub extern "C" fn pe_c_coff_strings(bytes: &[u8], coff: &CoffFields, out: &mut Range) -> u32
    ensures { HandsOutIf result out.old out.new (coff_strings_at bytes.now coff.now) }
{
    hand_out_some(coff_strings_at(bytes, coff), out)
}

/// Reads the next symbol: `NOTHING` at the end of the walk. Its auxiliary records are skipped.
///
/// Error: `SHORT` where the table is not inside the bytes. After it the walk is over.
#[unsafe(no_mangle)]
pub extern "C" fn pe_c_next_symbol(bytes: &[u8], walk: &mut SymbolWalk, out: &mut Symbol) -> u32
    ensures symbol { HandsOutIf result out.old out.new
        (symbol_at bytes.now walk.old.table walk.old.next) }
    ensures walk { walk.new
        ≡ symbols_after walk.old (symbol_at bytes.now walk.old.table walk.old.next) }
{
    hand_out_some(next_symbol(bytes, walk), out)
}

/// Returns the name of the symbol in an entry of a symbol table, in UTF-8 without its final zero: in the entry itself, or in
/// the string table at `strings`, where it is read to its end. `NOTHING` past the last entry.
///
/// Errors: `SHORT` where one of the tables is not inside the bytes; `STRING_TABLE` where the string table has no
/// NUL-terminated string there, or the name is not UTF-8.
#[unsafe(no_mangle)]
pub extern "C" fn pe_c_symbol_name(
    bytes: &[u8],
    table: &Range,
    strings: &Range,
    index: u64,
    out: &mut Range,
) -> u32
    ensures { HandsOutIf result out.old out.new
        (symbol_name_at bytes.now table.now strings.now index) }
{
    hand_out_some(symbol_name_at(bytes, table, strings, index), out)
}

/// Lists the symbols of a walk, as `pe_c_next_symbol` returns them, each with what `pe_c_symbol_name` returns of it, and moves the
/// walk past them. Names that share much are read together: with one of `runs` for each entry that the symbol table has left, or
/// more, a call takes about as long as to sort these and to read each byte of the string table a few times, however many of the
/// names share a string. With fewer further names are read to their end each. What is in `runs` after the call is left open.
///
/// Errors: `ROOM` where `entries` is empty; `SHORT` where the symbol table is not inside the bytes.
#[unsafe(no_mangle)]
pub extern "C" fn pe_c_list_symbols(
    bytes: &[u8],
    walk: &mut NamedSymbolWalk,
    runs: &mut [Run],
    entries: &mut [NamedSymbol],
    written: &mut u64,
) -> u32
    ensures list { HandsOutList (Numbered result_number
        (StepsNamedSymbols bytes.now walk.old.strings))
        result walk.old.symbols walk.new.symbols entries.old entries.new written.old written.new }
    ensures strings { walk.new.strings ≡ walk.old.strings }
{
    let strings = walk.strings;
    let mut symbols = walk.symbols;
    let number = match slice_of(bytes, &strings) {
        Ok(table) => {
            let texts = texts_of(bytes, &symbols, table, runs);
            let names = Together {
                bytes,
                strings,
                texts,
            };
            hand_out_list(&names, &mut symbols, entries, written)
        }
        // Each name is refused.
        Err(_) => list_alone(&Alone { bytes, strings }, &mut symbols, entries, written),
    };
    walk.symbols = symbols;
    number
}

/// Returns the Rich header, whatever the signatures of the headers: `NOTHING` where the image has none. An image as loaded has
/// it too, at the same offset.
///
/// Error: `SHORT` of the DOS header.
#[unsafe(no_mangle)]
pub extern "C" fn pe_c_rich_header(bytes: &[u8], out: &mut RichHeader) -> u32
    ensures { HandsOutIf result out.old out.new (rich_at bytes.now) }
{
    hand_out_some(rich_at(bytes), out)
}

/// Steps through the entries of a Rich header, at first its `entries`: returns the next one, and moves `walk` past it. `key` is
/// that of the header. `NOTHING` where no bytes are left.
///
/// Error: `SHORT` where `walk` is not inside the bytes, or the entry is truncated. After it the walk is over.
#[unsafe(no_mangle)]
pub extern "C" fn pe_c_next_rich_entry(
    bytes: &[u8],
    key: u32,
    walk: &mut Range,
    out: &mut RichEntry,
) -> u32
    ensures entry { HandsOutIf result out.old out.new
        (next_of (rich_entry_at key) 8 bytes.now walk.old) }
    ensures walk { walk.new ≡ walk_of 8 bytes.now walk.old }
{
    hand_out_some(next_rich_entry(bytes, key, walk), out)
}

/// Returns the string that the name of a section leads to, in UTF-8 without its final zero. `table` is the string table.
/// `NOTHING` where the name is none that leads there, as `.text`, or where no string is at its offset.
///
/// Error: `SHORT` where `table` is not inside the bytes.
#[unsafe(no_mangle)]
pub extern "C" fn pe_c_long_section_name(
    bytes: &[u8],
    table: &Range,
    section: &SectionTable,
    out: &mut Range,
) -> u32
    ensures { HandsOutIf result out.old out.new (long_name_at bytes.now table.now section.now) }
{
    hand_out_some(long_name_at(bytes, table, section), out)
}

/// Lists the long names of the sections of an image from an index on, as `pe_c_long_section_name` returns them, each an empty range
/// where that returns `NOTHING`, and moves `next` past them. Names are read together: with one of `runs` for each of `entries`, or
/// more, a call takes about as long as to sort these and to read each byte of the string table a few times, however many of the
/// names share a string. With less room further names are read to their end each. What is in `runs` after the call is left open.
///
/// Errors: `ROOM` where `entries` is empty; `SHORT` where `table` is not inside the bytes, and a section is left.
#[unsafe(no_mangle)]
pub extern "C" fn pe_c_list_long_section_names(
    view: &View,
    table: &Range,
    next: &mut u64,
    runs: &mut [Run],
    entries: &mut [Range],
    written: &mut u64,
) -> u32
    ensures { HandsOutList (Numbered result_number (StepsByIndex (long_name_by_index
        view.now.bytes.now table.now view.now.sections.now)))
        result next.old next.new entries.old entries.new written.old written.new }
{
    let table = *table;
    match slice_of(view.bytes, &table) {
        Ok(strings) => {
            let texts = section_names::texts_of(
                strings,
                next_sections(view.sections, *next, entries.len()),
                runs,
            );
            hand_out_list(
                &section_names::Together { view, table, texts },
                next,
                entries,
                written,
            )
        }
        // Each name is refused.
        Err(_) => hand_out_list(
            &section_names::Alone { view, table },
            next,
            entries,
            written,
        ),
    }
}

/// The bytes after the headers and the raw data of all sections.
pub const RANGE_OVERLAY: u32 = 1;
/// The COFF string table, from its size field on.
pub const RANGE_STRING_TABLE: u32 = 2;
/// The entries of the debug directory.
pub const RANGE_DEBUG_ENTRIES: u32 = 3;

/// Returns the range of a kind. `NOTHING` where the image has none, and of another kind. In an image as loaded there is no overlay, which
/// may hold what headers lead to: the certificate table, COFF symbols. The string table follows the COFF symbols: there is none without
/// them, where the bytes end after them, and in an image as loaded. The entries are a walk for `pe_c_next_debug_entry`, which reads no
/// record of theirs.
///
/// Errors: of the overlay none; of the string table `SHORT` of the headers, `SHORT` where the symbols are truncated, `STRING_TABLE` where
/// the table is; of the entries `UNMAPPED`, `DEBUG_BOUNDS` where they end past the end of the bytes. Permissive mode truncates them there.
#[unsafe(no_mangle)]
pub extern "C" fn pe_c_image_range(view: &View, kind: u32, out: &mut Range) -> u32
    ensures { HandsOutIf result out.old out.new (image_range kind view.now) }
{
    let found = match kind {
        RANGE_OVERLAY => Ok(overlay_at(view)),
        RANGE_STRING_TABLE => strings_at(view),
        RANGE_DEBUG_ENTRIES => table_of(view),
        _ => Ok(None),
    };
    hand_out_some(found, out)
}
