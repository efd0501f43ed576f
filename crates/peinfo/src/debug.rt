//! The `debug` lines of `list`: the type and size of each debug entry in decimal, then the RVA and the file offset of
//! its record in hexadecimal.
//! https://learn.microsoft.com/windows/win32/debug/pe-format#the-debug-section

ghost use Rattle.std.specs.Prelude.{◌≡◌, ◌++◌, codes, OnOk};
ghost use Rattle.std.specs.Option.{option_map};
ghost use Rattle.pe_records.specs.DebugDirectory.{debug_bytes_left, fixup_of};
ghost use Rattle.pe_records.specs.DebugRecords.{debug_view};
ghost use Rattle.peinfo.specs.Hex.{hex};
ghost use Rattle.peinfo.specs.DebugEntries.{entry_line, entry_lines, debug_lines, line_count};

use crate::digits::{hex8_digits, push_decimal};
use pe_image::{DebugData, ImageDebugDirectory, ImageDebugDirectoryIterator};
use std::alloc::{AllocError, Allocator};

/// The end of a line, from after the size on.
#[tactic(auto, unfolding(crate::specs::Hex::hex))]
fn line_end(address: u32, pointer: u32) -> [u8; 19]
    ensures { result ≡ codes " " ++ hex 8 address ++ codes " " ++ hex 8 pointer ++ codes "\n" }
{
    let mut line = *b" 00000000 00000000\n";
    line[1..9].copy_from_slice(&hex8_digits(address));
    line[10..18].copy_from_slice(&hex8_digits(pointer));
    line
}

#[tactic(auto, unfolding(crate::specs::DebugEntries::entry_line))]
fn push_line<A: Allocator>(
    text: &mut Vec<u8, A>,
    entry: &ImageDebugDirectory,
) -> Result<(), AllocError>
    ensures { OnOk result (text.new.items ≡ text.old.items ++ entry_line entry.now) }
{
    text.extend_from_slice(b"debug ")?;
    push_decimal(text, entry.data_type)?;
    text.push(b' ')?;
    push_decimal(text, entry.size_of_data)?;
    text.extend_from_slice(&line_end(entry.address_of_raw_data, entry.pointer_to_raw_data))
}

/// How many lines debug data has.
pub fn line_count(debug: &Option<DebugData>) -> usize
    ensures { result ≡ line_count (option_map debug_view debug.now) }
{
    match debug {
        None => 0,
        Some(debug) => debug.entries().len(),
    }
}

/// Adds a line for each entry, and one for a truncated entry.
#[tactic(auto, using(crate::proofs::Lines::one_more, crate::proofs::Lines::no_more))]
fn push_entries<A: Allocator>(
    text: &mut Vec<u8, A>,
    entries: ImageDebugDirectoryIterator,
) -> Result<(), AllocError>
    ensures { OnOk result (text.new.items ≡ text.old.items ++ entry_lines (fixup_of entries.entry)
        (debug_bytes_left entries.entry)) }
{
    for item in entries {
        match item {
            Ok(entry) => push_line(text, &entry)?,
            Err(_) => text.extend_from_slice(b"debug cut\n")?,
        }
    }
    Ok(())
}

/// Adds the lines of debug data, if there is any.
pub fn push_lines<A: Allocator>(
    text: &mut Vec<u8, A>,
    debug: &Option<DebugData>,
) -> Result<(), AllocError>
    ensures { OnOk result
        (text.new.items ≡ text.old.items ++ debug_lines (option_map debug_view debug.now)) }
{
    match debug {
        None => Ok(()),
        Some(debug) => push_entries(text, debug.entries()),
    }
}
