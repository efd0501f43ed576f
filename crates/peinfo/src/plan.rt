//! The command `at --chain`: the line of the x64 function that covers an RVA, and a line for each of its unwind
//! records, up to the root of their chain.
//! https://learn.microsoft.com/cpp/build/exception-handling-x64

ghost use Rattle.std.specs.Prelude.{◌≡◌, ◌++◌, map, OnOk};
ghost use Rattle.pe_core.specs.Refusals.{answer_by};
ghost use Rattle.pe_unwind.specs.UnwindRecord.{unwind_view};
ghost use Rattle.peinfo.specs.Engine.{Reports};
ghost use Rattle.peinfo.specs.Output.{writer_of, failures_of};
ghost use Rattle.peinfo.specs.Plan.{record_line_end, number_text, numbers_text, record_line, record_lines, PlansRecords, IsPlanText, IsPlanRefusal, ReturnsPlanText};

use crate::counted_out::CountedOut;
use crate::digits::push_decimal;
use crate::engine::{ReportError, write_text};
use crate::find::{found_in, push_found};
use pe_image::{
    ExceptionData, PE, ParseOptions, RuntimeFunction, SectionTable, UnwindHandler, UnwindInfo,
};
use pe_plan::UnwindPlan;
use std::alloc::{AllocError, Allocator};
use std::io;

/// The end of a record's line: a word for what follows its codes.
fn line_end(info: &UnwindInfo) -> &'static [u8]
    ensures { result.now ≡ record_line_end
        (unwind_view info.now).chained_info (unwind_view info.now).handler }
{
    match (&info.chained_info, &info.handler) {
        (Some(_), _) => b" chained\n",
        (None, Some(UnwindHandler::ExceptionHandler(..))) => b" exception\n",
        (None, Some(UnwindHandler::TerminationHandler(..))) => b" termination\n",
        (None, None) => b" plain\n",
    }
}

/// Adds a space and a number in decimal.
#[tactic(auto, unfolding(crate::specs::Plan::number_text))]
fn push_number<A: Allocator>(text: &mut Vec<u8, A>, number: u32) -> Result<(), AllocError>
    ensures { OnOk result (text.new.items ≡ text.old.items ++ number_text number) }
{
    text.push(b' ')?;
    push_decimal(text, number)
}

/// Adds the version of a record, the length of its prolog, and its frame register with the offset.
#[tactic(auto, unfolding(crate::specs::Plan::numbers_text))]
fn push_numbers<A: Allocator>(text: &mut Vec<u8, A>, info: &UnwindInfo) -> Result<(), AllocError>
    ensures { OnOk result (text.new.items ≡ text.old.items ++ numbers_text (unwind_view info.now)) }
{
    push_number(text, u32::from(info.version))?;
    push_number(text, u32::from(info.size_of_prolog))?;
    push_number(text, u32::from(info.frame_register.0))?;
    push_number(text, info.frame_register_offset)
}

/// Adds the line of a record.
#[tactic(auto, unfolding(crate::specs::Plan::record_line))]
fn push_record<A: Allocator>(text: &mut Vec<u8, A>, info: &UnwindInfo) -> Result<(), AllocError>
    ensures { OnOk result (text.new.items ≡ text.old.items ++ record_line (unwind_view info.now)) }
{
    text.extend_from_slice(b"record")?;
    push_numbers(text, info)?;
    text.extend_from_slice(line_end(info))
}

/// Adds a line for each record.
#[tactic(auto, using(std::proofs::lemmas::Grind::common_steps))]
fn push_records<A: Allocator>(
    text: &mut Vec<u8, A>,
    records: &[UnwindInfo<'_>],
) -> Result<(), AllocError>
    ensures { OnOk result
        (text.new.items ≡ text.old.items ++ record_lines (map unwind_view records.now)) }
{
    for record in records {
        push_record(text, record)?;
    }
    Ok(())
}

/// The records of a function that is found, up to the root of their chain.
fn records_of<'a, A: Allocator>(
    alloc: A,
    exceptions: &Option<ExceptionData<'a>>,
    sections: &[SectionTable],
    found: Option<RuntimeFunction>,
) -> pe_image::Result<Vec<UnwindInfo<'a>, A>>
    ensures { PlansRecords exceptions.now sections.now found
        (answer_by (λ records. map unwind_view records.items) result) }
{
    match (exceptions, found) {
        (Some(exceptions), Some(function)) => {
            let opts = ParseOptions::default();
            UnwindPlan::of_function(alloc, exceptions, function, sections, &opts)
        }
        _ => Ok(Vec::new(alloc)),
    }
}

/// The line of the function that covers the RVA and those of its records, or the error of the image or of the plan.
#[tactic(auto, using(crate::proofs::PlanTexts::planned))]
fn text_of<A: Allocator + Copy + Drop>(
    alloc: A,
    bytes: &[u8],
    rva: u32,
) -> pe_image::Result<Vec<u8, A>>
    ensures { ReturnsPlanText bytes.now rva result }
{
    let image = PE::parse_without_lists(alloc, bytes, &ParseOptions::default())?;
    let found = found_in(image.x64_exceptions(), rva);
    let records = records_of(alloc, &image.exception_data, &image.sections, found)?;
    let mut text = Vec::new(alloc);
    push_found(&mut text, found)?;
    push_records(&mut text, &records)?;
    Ok(text)
}

/// Shows the x64 function that covers an RVA of the image and each of its unwind records up to the root of their chain,
/// or `none`. The image is read in strict mode, with the default options.
#[tactic(auto, using(crate::proofs::Engines::reports))]
pub fn plan<A: Allocator, W: io::Write>(
    alloc: A,
    bytes: &[u8],
    rva: u32,
    out: &mut CountedOut<W>,
) -> Result<(), ReportError>
    ensures { Reports result (IsPlanText bytes.now rva)
        (IsPlanRefusal bytes.now rva)
        (W.contents (writer_of out.old)) (W.contents (writer_of out.new))
        (failures_of out.old) (failures_of out.new) }
{
    let text = text_of(&alloc, bytes, rva).map_err(ReportError::Parse)?;
    write_text(out, &text)
}
