//! Names of functions without a PDB: by the COFF symbols of an image, as mingw-w64's have them, and by the exports of a DLL. The
//! function table says which code is one function, so that no name is that of another function.
//! https://learn.microsoft.com/windows/win32/debug/pe-format#coff-symbol-table
//!
//! A caller reads the tables by `pe_c_name_tables`, makes a room of as many numbers as it says, and asks for the names of all addresses of
//! the image at once: what has a name is sorted once a call.

ghost use Rattle.std.specs.Prelude.{◌≡◌, ◌≤◌, drop, length};
ghost use Rattle.std.specs.List.Sorted.{IsPermutation};
ghost use Rattle.std.specs.Option.{option_and_then};
ghost use Rattle.pe_core.specs.ExportAddresses.{addresses_view};
ghost use Rattle.pe_core.specs.Exports.{table_entry};
ghost use Rattle.pe_core.specs.Refusals.{answer_of};
ghost use Rattle.calls_stacks.specs.FunctionNames.{AreNames, NamesAddress, StartsAt, address_tables, bytes_from, export_text, exports_named, functions_of, looked_up, name_reported, numbers_in, shortened, string_offset, strings_of, symbol_text, symbols_named, symbols_of, text_range};
ghost use Rattle.calls_base.specs.Ranges.{bytes_at};
ghost use Rattle.calls_unwind.specs.Unwinding.{LocatesIn};
ghost use Rattle.calls_base.specs.Views.{map_of};

use calls_base::image::ABSENT;
use calls_base::ranges::{NO_BYTES, Range, bytes_there, slice_of};
use calls_base::results::{DONE, NOTHING, options};
use calls_base::view::{View, map_by};
use calls_directories::names::exports::Exports;
use calls_headers::coff::{coff_strings_at, symbol_name_at, symbols_at};
use calls_headers::headers::read_headers;
use calls_unwind::arm64::functions as arm64;
use calls_unwind::unwinding::{find, table_of};
use pe_core::{
    COFF_MACHINE_ARM64, ExportAddresses, Result, SIZE_OF_SYMBOL, SymbolTable, text_at, u32_at,
};
use pe_stacks::{FunctionStart, NamedAddresses, NamedFunction, name_of};
use pe_unwind::RuntimeFunction;

/// How many bytes a name has at most, its final zero included. A name that is longer is not read: many may lead into one text.
pub const MOST_OF_NAME: usize = 4096;

/// What names an address: nothing.
pub const NO_NAME: u32 = 0;

/// A COFF symbol.
pub const SYMBOL: u32 = 1;

/// An export.
pub const EXPORT: u32 = 2;

/// No exports.
pub const NO_EXPORTS: Exports = Exports {
    names: NO_BYTES,
    ordinals: NO_BYTES,
    addresses: NO_BYTES,
    next: 0,
    directory: ABSENT,
};

/// The tables of an image of which names are read, each by itself.
#[repr(C)]
#[derive(Clone, Copy)]
pub struct NameSources {
    /// The function table; no bytes without one, as on x86.
    pub functions: Range,
    /// The symbol table, entries of 18 bytes; no bytes without one, and in an image as loaded: sections do not have it.
    pub symbols: Range,
    /// The string table with the longer names of symbols, or no bytes.
    pub strings: Range,
    /// The tables of exports; no bytes without them.
    pub exports: Exports,
    /// How many numbers `pe_c_function_names` needs room for.
    pub room: u64,
    /// `DONE` where the image has a function table, `NOTHING` where it has none, or why it is refused.
    pub functions_result: u32,
    /// The same of the symbol table.
    pub symbols_result: u32,
    /// The same of the string table.
    pub strings_result: u32,
    /// The same of the exports.
    pub exports_result: u32,
}

/// An address in the code of an image.
#[repr(C)]
#[derive(Clone, Copy)]
pub struct CodeAddress {
    pub rva: u32,
    /// 0 where the code at the RVA was about to run, as in the top frame of a stack. Else it is a return address: the byte before it is
    /// looked up, since a call may be the last instruction of its function.
    pub is_return: u32,
}

/// What names an address.
#[repr(C)]
#[derive(Clone, Copy)]
pub struct FunctionName {
    /// The name: UTF-8, without its final zero. No bytes without one, and where it is not text, or has more than 4,095 bytes.
    pub name: Range,
    /// The RVA that has the name.
    pub start: u32,
    /// How far after it the address is.
    pub offset: u32,
    /// What names it: 0 nothing, 1 a COFF symbol, 2 an export.
    pub source: u32,
    /// 1 where it is only the last name before the address, in an image without a function table; it may be that of another function.
    pub is_nearest: u32,
}

/// The function table, by the machine.
pub fn functions_of(view: &View) -> Result<Option<Range>>
    ensures { answer_of result ≡ functions_of view.now }
{
    if view.image.machine == COFF_MACHINE_ARM64 {
        arm64::table_of(view)
    } else {
        table_of(view)
    }
}

/// The symbol table.
pub fn symbols_of(view: &View) -> Result<Option<Range>>
    ensures { answer_of result ≡ symbols_of view.now }
{
    if !options(view.image.mode).resolve_rva {
        return Ok(None);
    }
    let headers = read_headers(view.bytes, view.image.mode)?;
    match symbols_at(view.bytes, &headers.coff)? {
        Some(walk) => Ok(Some(walk.table)),
        None => Ok(None),
    }
}

/// The string table.
pub fn strings_of(view: &View) -> Result<Option<Range>>
    ensures { answer_of result ≡ strings_of view.now }
{
    if !options(view.image.mode).resolve_rva {
        return Ok(None);
    }
    let headers = read_headers(view.bytes, view.image.mode)?;
    coff_strings_at(view.bytes, &headers.coff)
}

/// The function of an x64 table that covers an RVA.
fn find_x64(view: &View, table: &Range, rva: u32) -> Result<Option<RuntimeFunction>>
    ensures { LocatesIn (bytes_at view.now.bytes.now table.now) rva (answer_of result) }
{
    let entries = slice_of(view.bytes, table)?;
    Ok(find(entries, rva))
}

/// What the function table says of the function that an RVA is in. One that is refused says nothing.
fn start_at(view: &View, sources: &NameSources, rva: u32) -> FunctionStart
    ensures { StartsAt view.now sources.now rva result }
{
    if sources.functions_result == NOTHING {
        return FunctionStart::NoTable;
    }
    if view.image.machine == COFF_MACHINE_ARM64 {
        return match arm64::find(view, &sources.functions, rva) {
            Ok(Some(function)) => FunctionStart::Starts(function.begin_address),
            _ => FunctionStart::NoFunction,
        };
    }
    match find_x64(view, &sources.functions, rva) {
        Ok(Some(function)) => FunctionStart::Starts(function.begin_address),
        _ => FunctionStart::NoFunction,
    }
}

/// The bytes up to those of a name at an offset that are read.
fn bytes_from(bytes: &[u8], offset: usize) -> &[u8]
    ensures { result.now ≡ bytes_from bytes.now offset }
{
    if offset < bytes.len() && MOST_OF_NAME < bytes.len() - offset {
        &bytes[..offset + MOST_OF_NAME]
    } else {
        bytes
    }
}

/// The offset of a symbol's name in the string table; 0 where no such entry is there.
fn string_offset(entries: &[u8], number: u32) -> u32
    ensures { result ≡ string_offset entries.now number }
{
    match u32_at(entries, SIZE_OF_SYMBOL * number as usize + 4) {
        Ok(offset) => offset,
        Err(_) => 0,
    }
}

/// The string table up to the bytes of a name at an offset that are read.
fn shortened(strings: &Range, offset: u32) -> Range
    ensures { result ≡ shortened strings.now offset }
{
    Range {
        offset: strings.offset,
        length: strings.length.min(u64::from(offset) + MOST_OF_NAME as u64),
    }
}

/// The range of the name of a symbol, no bytes where it cannot be read.
fn symbol_text(view: &View, sources: &NameSources, number: u32) -> Range
    ensures { result ≡ symbol_text view.now sources.now number }
{
    let entries = bytes_there(view.bytes, &sources.symbols);
    let strings = shortened(&sources.strings, string_offset(entries, number));
    match symbol_name_at(view.bytes, &sources.symbols, &strings, u64::from(number)) {
        Ok(Some(name)) => name,
        _ => NO_BYTES,
    }
}

/// The range of the text at an offset, if it is one of so few bytes.
fn text_range(bytes: &[u8], offset: usize) -> Option<Range>
    ensures { result ≡ text_range bytes.now offset }
{
    let text = text_at(bytes_from(bytes, offset), offset)?;
    Some(Range {
        offset: offset as u64,
        length: text.len() as u64,
    })
}

/// The range of the name of an export, if it can be read.
fn export_name(view: &View, names: &[u8], number: u32) -> Option<Range>
    ensures { result ≡ option_and_then (text_range view.now.bytes.now)
        (option_and_then (map_of view.now) (table_entry 4 names.now number)) }
{
    let rva = u32_at(names, 4 * number as usize).ok()?;
    let offset = map_by(view, rva)?;
    text_range(view.bytes, offset)
}

/// The same, no bytes where it cannot.
fn export_text(view: &View, sources: &NameSources, number: u32) -> Range
    ensures { result ≡ export_text view.now sources.now number }
{
    let names = bytes_there(view.bytes, &sources.exports.names);
    export_name(view, names, number).unwrap_or(NO_BYTES)
}

/// What names an address, with the range of the name.
fn name_reported(
    view: &View,
    sources: &NameSources,
    rva: u32,
    found: Option<NamedFunction>,
) -> FunctionName
    ensures { result ≡ name_reported view.now sources.now rva found }
{
    let Some(function) = found else {
        return FunctionName {
            name: NO_BYTES,
            start: 0,
            offset: 0,
            source: NO_NAME,
            is_nearest: 0,
        };
    };
    FunctionName {
        name: if function.is_export {
            export_text(view, sources, function.number)
        } else {
            symbol_text(view, sources, function.number)
        },
        start: function.start,
        offset: rva.saturating_sub(function.start),
        source: if function.is_export { EXPORT } else { SYMBOL },
        is_nearest: u32::from(function.is_nearest),
    }
}

/// The exports of the tables.
fn exports_at<'v>(view: &View<'v>, sources: &NameSources) -> ExportAddresses<'v>
    ensures { addresses_view result ≡ address_tables view.now sources.now }
{
    let exports = &sources.exports;
    ExportAddresses {
        addresses: bytes_there(view.bytes, &exports.addresses),
        names: bytes_there(view.bytes, &exports.names),
        ordinals: bytes_there(view.bytes, &exports.ordinals),
        directory: exports.directory,
        ordinal_base: 0,
    }
}

/// The RVA by which an address is looked up.
fn looked_up(address: CodeAddress) -> Option<u32>
    ensures { result ≡ looked_up address }
{
    if address.is_return == 0 {
        return Some(address.rva);
    }
    address.rva.checked_sub(1)
}

/// What names an address, by the addresses that symbols and exports name.
fn name_at(
    view: &View,
    sources: &NameSources,
    symbols: &NamedAddresses<'_>,
    exports: &NamedAddresses<'_>,
    address: CodeAddress,
) -> FunctionName
    requires symbols { IsPermutation (symbols_named view.now sources.now) symbols.now.addresses.now }
    requires exports { IsPermutation (exports_named view.now sources.now) exports.now.addresses.now }
    ensures { NamesAddress view.now sources.now address result }
{
    match looked_up(address) {
        Some(rva) => {
            let start = start_at(view, sources, rva);
            let found = name_of(symbols, exports, start, rva);
            name_reported(view, sources, address.rva, found)
        }
        None => name_reported(view, sources, address.rva, None),
    }
}

/// Writes the names of addresses to the start of a room for them.
pub fn put_names(
    view: &View,
    sources: &NameSources,
    addresses: &[CodeAddress],
    room: &mut [u64],
    names: &mut [FunctionName],
)
    requires numbers { numbers_in view.now sources.now ≤ length room.old }
    requires names { length addresses.now ≤ length names.old }
    ensures names { AreNames view.now sources.now addresses.now names.new (length addresses.now) }
    ensures len { length names.new ≡ length names.old }
    ensures rest { drop (length addresses.now) names.new ≡ drop (length addresses.now) names.old }
{
    let table = SymbolTable {
        bytes: bytes_there(view.bytes, &sources.symbols),
    };
    let (first, second) = room.split_at_mut(table.bytes.len() / SIZE_OF_SYMBOL);
    let symbols = NamedAddresses::of_symbols(&table, view.sections, first);
    let exports = NamedAddresses::of_exports(&exports_at(view, sources), second);
    for i in 0..addresses.len() {
        names[i] = name_at(view, sources, &symbols, &exports, addresses[i]);
    }
}
