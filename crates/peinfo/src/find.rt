//! The command `at`: the line of the x64 function that covers an RVA, or `none`.

ghost use Rattle.std.specs.Prelude.{◌≡◌, ◌++◌, OnOk};
ghost use Rattle.std.specs.Option.{option_map};
ghost use Rattle.pe_unwind.specs.FunctionTable.{Finds};
ghost use Rattle.peinfo.specs.Engine.{Reports};
ghost use Rattle.peinfo.specs.Find.{functions_of, found_line, IsFindText, IsFindRefusal, ReturnsFindText};
ghost use Rattle.peinfo.specs.Output.{writer_of, failures_of};

use crate::counted_out::CountedOut;
use crate::engine::{ReportError, write_text};
use crate::functions;
use pe_image::{ExceptionData, PE, ParseOptions, RuntimeFunction};
use std::alloc::{AllocError, Allocator};
use std::io;

/// The function that covers the RVA, if x64 exception data has one.
pub fn found_in(exceptions: Option<&ExceptionData>, rva: u32) -> Option<RuntimeFunction>
    ensures { Finds (functions_of (option_map (λ e. e.now) exceptions.entry)) rva result }
{
    match exceptions {
        Some(exceptions) => match exceptions.find_function(rva) {
            Ok(found) => found,
            Err(_) => None,
        },
        None => None,
    }
}

/// Adds the line of a function that is found, or `none`.
pub fn push_found<A: Allocator>(
    text: &mut Vec<u8, A>,
    found: Option<RuntimeFunction>,
) -> Result<(), AllocError>
    ensures { OnOk result (text.new.items ≡ text.old.items ++ found_line found) }
{
    match found {
        None => text.extend_from_slice(b"none\n"),
        Some(function) => functions::push_line(text, &function),
    }
}

/// The line of the function that covers the RVA, or the error of the image.
#[tactic(auto, using(crate::proofs::FindTexts::find_text))]
fn text_of<A: Allocator + Copy + Drop>(
    alloc: A,
    bytes: &[u8],
    rva: u32,
) -> pe_image::Result<Vec<u8, A>>
    ensures { ReturnsFindText bytes.now rva result }
{
    let image = PE::parse_without_lists(alloc, bytes, &ParseOptions::default())?;
    let found = found_in(image.x64_exceptions(), rva);
    let mut text = Vec::new(alloc);
    push_found(&mut text, found)?;
    Ok(text)
}

/// Shows the x64 function that covers an RVA of the image, or `none`, also for an image of another machine. The image
/// is read in strict mode, with the default options.
#[tactic(auto, using(crate::proofs::Engines::reports))]
pub fn find<A: Allocator, W: io::Write>(
    alloc: A,
    bytes: &[u8],
    rva: u32,
    out: &mut CountedOut<W>,
) -> Result<(), ReportError>
    ensures { Reports result (IsFindText bytes.now rva)
        (IsFindRefusal bytes.now)
        (W.contents (writer_of out.old)) (W.contents (writer_of out.new))
        (failures_of out.old) (failures_of out.new) }
{
    let text = text_of(&alloc, bytes, rva).map_err(ReportError::Parse)?;
    write_text(out, &text)
}
