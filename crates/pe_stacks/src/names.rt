//! Names of functions without a PDB. Images of mingw-w64, Go and Rust for it have
//! [COFF symbols](https://learn.microsoft.com/windows/win32/debug/pe-format#coff-symbol-table), and DLLs have exports. The last of
//! either at or before an address is mostly of another function: most functions have no export. The function table says which code
//! is one function, so that a symbol names only its own function, and an export only the function that it starts.
//!
//! An image may have many symbols, and a stack many frames, so the addresses that have names are sorted once, in a room that the
//! caller has, and each is looked up by binary search.

ghost use Rattle.std.specs.Prelude.{◌≡◌, ◌+◌, ◌/◌, ◌≤◌, ◌<◌, ◌^◌, [], ◌++◌, ℕ, List, length, min, take};
ghost use Rattle.std.specs.List.Sorted.{IsNonDecreasing, IsPermutation};
ghost use Rattle.std.specs.Option.{option_map, option_to_list};
ghost use Rattle.pe_core.specs.ExportAddresses.{addresses_view};
ghost use Rattle.pe_core.specs.Symbols.{symbol_in, row_count};
ghost use Rattle.pe_stacks.specs.Names.{Names, Nearest, export_addresses, export_at, exported_rva, function_named, function_rva, name_inside, named, nearer, symbol_addresses, symbol_rva};

use pe_core::{
    ExportAddresses, SIZE_OF_SYMBOL, SectionTable, Symbol, SymbolTable, lies_in, u16_at, u32_at,
};

/// `IMAGE_SYM_DTYPE_FUNCTION`, shifted as types have it.
const FUNCTION: u16 = 0x20;

/// `IMAGE_SYM_CLASS_EXTERNAL` and `IMAGE_SYM_CLASS_STATIC`.
const EXTERNAL: u8 = 2;

const STATIC: u8 = 3;

/// How much an RVA counts in an address that has a name: below it is the number of what names it.
const UNIT: u64 = 1 << 32;

/// What the function table of an image says of the function that an RVA is in.
#[derive(Clone, Copy)]
pub enum FunctionStart {
    /// The image has no function table, as on x86.
    NoTable,
    /// No function of the table has the RVA.
    NoFunction,
    /// A function that starts at this RVA has it.
    Starts(u32),
}

/// What names the function at an RVA.
#[derive(Clone, Copy)]
pub struct NamedFunction {
    /// The RVA that has the name, at or before the one that was looked up.
    pub start: u32,
    /// The index of the symbol's entry, or of the export in the name table.
    pub number: u32,
    /// Whether it is an export. If not, it is a COFF symbol.
    pub is_export: bool,
    /// Whether it is only the last name before the RVA, and may be of another function: nothing says where functions end.
    pub is_nearest: bool,
}

/// The RVA of a symbol's value. `None` if it is in no section of the image.
fn symbol_rva(sections: &[SectionTable], symbol: &Symbol) -> Option<u32>
    ensures { result ≡ symbol_rva sections.now symbol.now }
{
    let number = symbol.section_number.cast_unsigned();
    if number == 0 || 0x8000 <= number || sections.len() < usize::from(number) {
        return None;
    }
    sections[usize::from(number) - 1]
        .virtual_address
        .checked_add(symbol.value)
}

/// The RVA of the function that a symbol names. `None` of other symbols.
#[tactic(auto, unfolding(crate::specs::Names::function_rva))]
fn function_rva(sections: &[SectionTable], symbol: &Symbol) -> Option<u32>
    ensures { result ≡ function_rva sections.now symbol.now }
{
    let is_function = symbol.typ == FUNCTION
        && (symbol.storage_class == EXTERNAL || symbol.storage_class == STATIC);
    if is_function {
        symbol_rva(sections, symbol)
    } else {
        None
    }
}

/// How many of so many entries have a number, which has 32 bits.
fn numbered(count: usize) -> usize
    ensures { result ≡ min count (2 ^ 32) }
{
    count.min(UNIT as usize)
}

/// The address that a number names, with the number.
fn named(rva: u32, number: usize) -> u64
    requires { number < 2 ^ 32 }
    ensures { result ≡ named rva number }
{
    u64::from(rva) * UNIT + number as u64
}

/// The symbol in an entry of a table.
fn symbol_in(table: &[u8], row: usize) -> Symbol
    requires { row < row_count table.now }
    ensures { result ≡ symbol_in table.now row }
{
    Symbol::parse(table, SIZE_OF_SYMBOL * row).unwrap()
}

/// Writes the address that a number names after the `count` that a room has, if it names one, and returns how many it has then.
#[tactic(auto, using(crate::proofs::NearestNames::one_more, crate::proofs::NearestNames::no_more))]
fn put_named(room: &mut [u64], count: usize, rva: Option<u32>, number: usize) -> usize
    requires number { number < 2 ^ 32 }
    requires room { count < length room.old }
    ensures addresses { take result room.new ≡ take count room.old
        ++ option_to_list (option_map (λ x. named x number) rva) }
    ensures count { result ≤ count + 1 }
    ensures len { length room.new ≡ length room.old }
{
    match rva {
        Some(rva) => {
            room[count] = named(rva, number);
            count + 1
        }
        None => count,
    }
}

/// Writes the addresses that the symbols of a table name to the start of a room, and returns how many there are.
#[tactic(auto, unfolding(crate::specs::Names::named_below, crate::specs::Names::function_in, crate::specs::Names::next_symbol))]
fn put_symbols(table: &[u8], sections: &[SectionTable], room: &mut [u64]) -> usize
    requires room { row_count table.now ≤ length room.old }
    ensures addresses { take result room.new ≡ symbol_addresses sections.now table.now }
    ensures count { result ≤ row_count table.now }
    ensures len { length room.new ≡ length room.old }
{
    let mut count = 0;
    let mut next = 0;
    for row in 0..numbered(table.len() / SIZE_OF_SYMBOL) {
        let mut rva = None;
        if row == next {
            let symbol = symbol_in(table, row);
            // Auxiliary records are no symbols.
            next = row + 1 + usize::from(symbol.number_of_aux_symbols);
            rva = function_rva(sections, &symbol);
        }
        count = put_named(room, count, rva, row);
    }
    count
}

/// The RVA that an entry of the name table exports. `None` of a forwarder, of one without an RVA, and past the tables.
#[tactic(auto, unfolding(crate::specs::Names::exported_rva))]
fn exported_rva(exports: &ExportAddresses<'_>, i: usize) -> Option<u32>
    requires { i < 2 ^ 62 }
    ensures { result ≡ exported_rva (addresses_view exports.now) i }
{
    let index = u16_at(exports.ordinals, 2 * i).ok()?;
    let rva = u32_at(exports.addresses, 4 * usize::from(index)).ok()?;
    if rva == 0 || lies_in(exports.directory, rva) {
        return None;
    }
    Some(rva)
}

/// Writes the addresses that exports with names have to the start of a room, and returns how many there are.
#[tactic(auto, unfolding(crate::specs::Names::named_below))]
fn put_exports(exports: &ExportAddresses<'_>, room: &mut [u64]) -> usize
    requires room { length exports.now.names.now / 4 ≤ length room.old }
    ensures addresses { take result room.new ≡ export_addresses (addresses_view exports.now) }
    ensures count { result ≤ length exports.now.names.now / 4 }
    ensures len { length room.new ≡ length room.old }
{
    let mut count = 0;
    for i in 0..numbered(exports.names.len() / 4) {
        count = put_named(room, count, exported_rva(exports, i), i);
    }
    count
}

/// The addresses that have names, in ascending order.
#[derive(Clone, Copy)]
pub struct NamedAddresses<'r> {
    addresses: &'r [u64],
    ghost ascending: { IsNonDecreasing addresses.now },
}

impl<'r> NamedAddresses<'r> {
    /// No addresses.
    pub fn none() -> NamedAddresses<'r>
        ensures { result.addresses.now ≡ [] }
    {
        NamedAddresses { addresses: &[] }
    }

    /// These, sorted.
    fn sorted(room: &'r mut [u64]) -> NamedAddresses<'r>
        ensures { IsPermutation room.old result.addresses.now }
    {
        room.sort_unstable();
        NamedAddresses { addresses: room }
    }

    /// Those that the function symbols of an image name. The room has to have an entry for each of the table; what is in it after the
    /// call is left open.
    pub fn of_symbols(
        symbols: &SymbolTable<'_>,
        sections: &[SectionTable],
        room: &'r mut [u64],
    ) -> NamedAddresses<'r>
        requires room { row_count symbols.now.bytes.now ≤ length room.old }
        ensures { IsPermutation (symbol_addresses sections.now symbols.now.bytes.now) result.addresses.now }
    {
        let count = put_symbols(symbols.bytes, sections, room);
        NamedAddresses::sorted(&mut room[..count])
    }

    /// Those of the exports of an image that have names and are no forwarders. The room has to have an entry for each name; what is
    /// in it after the call is left open.
    pub fn of_exports(exports: &ExportAddresses<'_>, room: &'r mut [u64]) -> NamedAddresses<'r>
        requires room { length exports.now.names.now / 4 ≤ length room.old }
        ensures { IsPermutation (export_addresses (addresses_view exports.now)) result.addresses.now }
    {
        let count = put_exports(exports, room);
        NamedAddresses::sorted(&mut room[..count])
    }

    /// The one that names an RVA: the last at or before it, and of those at one RVA the first.
    fn nearest(&self, rva: u32) -> Option<u64>
        ensures { (addresses : List ℕ) → IsPermutation addresses self.now.addresses.now → Nearest addresses rva result }
    {
        let rva = u64::from(rva);
        let after = self
            .addresses
            .partition_point(|address| *address / UNIT <= rva);
        if after == 0 {
            return None;
        }
        let start = self.addresses[after - 1] / UNIT;
        let first = self
            .addresses
            .partition_point(|address| *address / UNIT < start);
        Some(self.addresses[first])
    }
}

/// The name that an address has.
fn function_named(is_export: bool, is_nearest: bool, address: u64) -> NamedFunction
    ensures { result ≡ function_named is_export is_nearest address }
{
    NamedFunction {
        start: (address / UNIT) as u32,
        number: (address % UNIT) as u32,
        is_export,
        is_nearest,
    }
}

/// The export that starts a function, if that is the last at or before its start.
fn export_at(start: u32, last: Option<u64>) -> Option<NamedFunction>
    ensures { result ≡ export_at start last }
{
    let address = last?;
    if address / UNIT == u64::from(start) {
        Some(function_named(true, false, address))
    } else {
        None
    }
}

/// The name within a function, by the last symbol at or before the RVA, and the last export at or before its start.
fn name_inside(start: u32, symbol: Option<u64>, export: Option<u64>) -> Option<NamedFunction>
    ensures { result ≡ name_inside start symbol export }
{
    if let Some(address) = symbol {
        if u64::from(start) <= address / UNIT {
            return Some(function_named(false, false, address));
        }
    }
    export_at(start, export)
}

/// The name where no table says where functions start, by the last symbol and the last export at or before the RVA.
fn nearer(symbol: Option<u64>, export: Option<u64>) -> Option<NamedFunction>
    ensures { result ≡ nearer symbol export }
{
    match (symbol, export) {
        (None, None) => None,
        (None, Some(export)) => Some(function_named(true, true, export)),
        (Some(symbol), None) => Some(function_named(false, true, symbol)),
        (Some(symbol), Some(export)) => {
            let is_export = symbol / UNIT < export / UNIT;
            let address = if is_export { export } else { symbol };
            Some(function_named(is_export, true, address))
        }
    }
}

/// The name of the function at an RVA, by the addresses that symbols and exports name, and by what the function table says of it. `None`
/// where nothing names it.
pub fn name_of(
    symbols: &NamedAddresses<'_>,
    exports: &NamedAddresses<'_>,
    function: FunctionStart,
    rva: u32,
) -> Option<NamedFunction>
    ensures { (s e : List ℕ) → IsPermutation s symbols.now.addresses.now →
        IsPermutation e exports.now.addresses.now → Names s e function rva result }
{
    match function {
        FunctionStart::NoTable => nearer(symbols.nearest(rva), exports.nearest(rva)),
        FunctionStart::NoFunction => None,
        FunctionStart::Starts(start) => {
            name_inside(start, symbols.nearest(rva), exports.nearest(start))
        }
    }
}
