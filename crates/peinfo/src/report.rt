//! The command `list`: the `image` line, and a line for each debug entry, certificate and function.

ghost use Rattle.std.specs.Prelude.{◌≡◌, ◌++◌, IfOk, OnOk};
ghost use Rattle.pe_image.specs.Image.{image_view};
ghost use Rattle.peinfo.specs.Engine.{Reports};
ghost use Rattle.peinfo.specs.Report.{image_line, report_text, IsReport, IsReportRefusal, ReturnsReport};
ghost use Rattle.peinfo.specs.Output.{writer_of, failures_of};

use crate::counted_out::CountedOut;
use crate::digits::{hex8_digits, hex16_digits};
use crate::engine::{ReportError, write_text};
use crate::{certificates, debug, exceptions};
use pe_image::{PE, ParseOptions};
use std::alloc::{AllocError, Allocator};
use std::io;

/// The length of the longest line: `image`, and `debug` with two numbers of ten digits.
const LONGEST_LINE: usize = 46;

#[tactic(auto, unfolding(crate::specs::Report::image_line))]
fn push_image_line<A: Allocator>(
    text: &mut Vec<u8, A>,
    is_64: bool,
    entry: u32,
    base: u64,
) -> Result<(), AllocError>
    ensures { OnOk result (text.new.items ≡ text.old.items ++ image_line is_64 entry base) }
{
    let width: &[u8] = if is_64 { b"64" } else { b"32" };
    text.extend_from_slice(b"image ")?;
    text.extend_from_slice(width)?;
    text.extend_from_slice(b" entry ")?;
    text.extend_from_slice(&hex8_digits(entry))?;
    text.extend_from_slice(b" base ")?;
    text.extend_from_slice(&hex16_digits(base))?;
    text.push(b'\n')?;
    Ok(())
}

/// The whole text of an image.
#[tactic(auto, unfolding(crate::specs::Report::report_text))]
fn text_of_image<A: Allocator + Copy + Drop>(
    alloc: A,
    image: &PE<'_, A>,
) -> Result<Vec<u8, A>, AllocError>
    ensures { IfOk result (λ text. text.items ≡ report_text (image_view image.now)) }
{
    let lines = debug::line_count(&image.debug_data)
        .saturating_add(image.certificates.len())
        .saturating_add(exceptions::line_count(image))
        .saturating_add(1);
    // One allocation for all lines.
    let mut text = Vec::with_capacity(alloc, lines.saturating_mul(LONGEST_LINE))?;
    push_image_line(&mut text, image.is_64, image.entry, image.image_base)?;
    debug::push_lines(&mut text, &image.debug_data)?;
    certificates::push_lines(&mut text, &image.certificates)?;
    exceptions::push_lines(&mut text, image)?;
    Ok(text)
}

/// The whole text, or the error of the image.
#[tactic(auto, using(crate::proofs::Unlisted::reported))]
fn text_of<A: Allocator + Copy + Drop>(
    alloc: A,
    bytes: &[u8],
    opts: &ParseOptions,
) -> pe_image::Result<Vec<u8, A>>
    ensures { ReturnsReport bytes.now opts.now result }
{
    let image = PE::parse_without_lists(alloc, bytes, opts)?;
    let text = text_of_image(alloc, &image)?;
    Ok(text)
}

/// Shows an image: its line, and a line for each debug entry, certificate and function. The whole text is made before
/// any of it is written.
#[tactic(auto, using(crate::proofs::Engines::reports))]
pub fn report<A: Allocator, W: io::Write>(
    alloc: A,
    bytes: &[u8],
    opts: &ParseOptions,
    out: &mut CountedOut<W>,
) -> Result<(), ReportError>
    ensures { Reports result (IsReport bytes.now opts.now) (IsReportRefusal bytes.now opts.now)
        (W.contents (writer_of out.old)) (W.contents (writer_of out.new))
        (failures_of out.old) (failures_of out.new) }
{
    let text = text_of(&alloc, bytes, opts).map_err(ReportError::Parse)?;
    write_text(out, &text)
}
