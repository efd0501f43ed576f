//! The command `rewrite`: an image that is written anew from what was read of it.

ghost use Rattle.peinfo.specs.Engine.{Reports};
ghost use Rattle.peinfo.specs.Output.{writer_of, failures_of};
ghost use Rattle.peinfo.specs.Rewrite.{IsRewritten, IsRewriteRefusal, ReturnsRewritten};

use crate::counted_out::CountedOut;
use crate::engine::{ReportError, write_text};
use pe_image::{PE, ParseOptions};
use std::alloc::Allocator;
use std::io;

/// The bytes of the image with its pieces written over them, or the error of reading or writing it.
#[tactic(auto, using(crate::proofs::Unlisted::refused_write))]
fn bytes_of<A: Allocator + Copy + Drop>(alloc: A, bytes: &[u8]) -> pe_image::Result<Vec<u8, A>>
    ensures { ReturnsRewritten bytes.now result }
{
    let image = PE::parse_without_lists(alloc, bytes, &ParseOptions::default())?;
    let mut copy = Vec::with_capacity(alloc, bytes.len())?;
    copy.extend_from_slice(bytes)?;
    image.write_into(&mut copy)?;
    Ok(copy)
}

/// Writes the image anew: a copy of its bytes, over which its headers, sections and certificates are written as they
/// were read. The image is read in strict mode, with the default options.
#[tactic(auto, using(crate::proofs::Engines::reports))]
pub fn rewrite<A: Allocator, W: io::Write>(
    alloc: A,
    bytes: &[u8],
    out: &mut CountedOut<W>,
) -> Result<(), ReportError>
    ensures { Reports result (IsRewritten bytes.now) (IsRewriteRefusal bytes.now)
        (W.contents (writer_of out.old)) (W.contents (writer_of out.new))
        (failures_of out.old) (failures_of out.new) }
{
    let written = bytes_of(&alloc, bytes).map_err(ReportError::Parse)?;
    write_text(out, &written)
}
