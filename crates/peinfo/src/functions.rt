//! The `function` lines of `list` and `at`, and the `function64` lines of ARM64 images: the numbers of an entry of the
//! function table in hexadecimal.
//! https://learn.microsoft.com/windows/win32/debug/pe-format#the-pdata-section

ghost use Rattle.std.specs.Prelude.{◌≡◌, ◌++◌, codes, OnOk};
ghost use Rattle.pe_unwind.specs.Arm64Functions.{items_of_arm64_functions};
ghost use Rattle.pe_unwind.specs.FunctionTable.{items_of_functions};
ghost use Rattle.peinfo.specs.Hex.{hex};
ghost use Rattle.peinfo.specs.FunctionLines.{function_line, function64_line, item_lines};

use crate::digits::hex8_digits;
use pe_image::{
    Arm64RuntimeFunction, Arm64RuntimeFunctionIterator, RuntimeFunction, RuntimeFunctionIterator,
};
use std::alloc::{AllocError, Allocator};

/// The end of an entry's line, from after its first word on.
#[tactic(auto, unfolding(crate::specs::Hex::hex))]
fn line_end(begin: u32, end: u32, unwind: u32) -> [u8; 27]
    ensures { result
        ≡ hex 8 begin ++ codes " " ++ hex 8 end ++ codes " " ++ hex 8 unwind ++ codes "\n" }
{
    let mut line = *b"00000000 00000000 00000000\n";
    line[..8].copy_from_slice(&hex8_digits(begin));
    line[9..17].copy_from_slice(&hex8_digits(end));
    line[18..26].copy_from_slice(&hex8_digits(unwind));
    line
}

/// Adds the line of a function.
#[tactic(auto, unfolding(crate::specs::FunctionLines::function_line))]
pub fn push_line<A: Allocator>(
    text: &mut Vec<u8, A>,
    function: &RuntimeFunction,
) -> Result<(), AllocError>
    ensures { OnOk result (text.new.items ≡ text.old.items ++ function_line function.now) }
{
    let RuntimeFunction {
        begin_address,
        end_address,
        unwind_info_address,
    } = *function;
    text.extend_from_slice(b"function ")?;
    text.extend_from_slice(&line_end(begin_address, end_address, unwind_info_address))
}

/// Adds a line for each whole entry. A truncated entry has none.
#[tactic(auto, using(crate::proofs::FunctionItems::one_more, crate::proofs::FunctionItems::no_more))]
pub fn push_lines<A: Allocator>(
    text: &mut Vec<u8, A>,
    functions: RuntimeFunctionIterator,
) -> Result<(), AllocError>
    ensures { OnOk result (text.new.items ≡ text.old.items ++ item_lines function_line
        (items_of_functions functions.entry)) }
{
    for item in functions {
        if let Ok(function) = item {
            push_line(text, &function)?;
        }
    }
    Ok(())
}

/// The end of an ARM64 entry's line, from after its first word on.
#[tactic(auto, unfolding(crate::specs::Hex::hex))]
fn line_end_64(begin: u32, unwind: u32) -> [u8; 18]
    ensures { result ≡ hex 8 begin ++ codes " " ++ hex 8 unwind ++ codes "\n" }
{
    let mut line = *b"00000000 00000000\n";
    line[..8].copy_from_slice(&hex8_digits(begin));
    line[9..17].copy_from_slice(&hex8_digits(unwind));
    line
}

/// Adds the line of an ARM64 function. Its length is in its unwind data, so the entry has no end.
#[tactic(auto, unfolding(crate::specs::FunctionLines::function64_line))]
fn push_line_64<A: Allocator>(
    text: &mut Vec<u8, A>,
    function: &Arm64RuntimeFunction,
) -> Result<(), AllocError>
    ensures { OnOk result (text.new.items ≡ text.old.items ++ function64_line function.now) }
{
    text.extend_from_slice(b"function64 ")?;
    text.extend_from_slice(&line_end_64(function.begin_address, function.unwind_data))
}

/// Adds a line for each whole ARM64 entry. A truncated entry has none.
#[tactic(auto, using(crate::proofs::FunctionItems::one_more, crate::proofs::FunctionItems::no_more))]
pub fn push_lines_64<A: Allocator>(
    text: &mut Vec<u8, A>,
    functions: Arm64RuntimeFunctionIterator,
) -> Result<(), AllocError>
    ensures { OnOk result (text.new.items ≡ text.old.items ++ item_lines function64_line
        (items_of_arm64_functions functions.entry)) }
{
    for item in functions {
        if let Ok(function) = item {
            push_line_64(text, &function)?;
        }
    }
    Ok(())
}
