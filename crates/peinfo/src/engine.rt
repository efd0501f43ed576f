//! What the engines share, which are `report`, `find`, `plan` and `rewrite`: each makes its whole text of an image, and
//! then writes it, so that nothing is written of an image that has an error.

ghost use Rattle.peinfo.specs.Engine.{Writes};
ghost use Rattle.peinfo.specs.Output.{writer_of, failures_of};

use crate::counted_out::{CountedOut, put_all};
use pe_image::Error;
use std::io;

/// Why the whole text was not written.
#[derive(Debug, Drop, thiserror::Error)]
pub enum ReportError {
    /// Reading the image failed, or writing it anew, or memory ran out. Nothing was written.
    #[error("{0}")]
    Parse(Error),
    /// A write failed. A part of the text from its start on was written, but not all of it.
    #[error("the text could not be written")]
    Write,
}

/// The last step of an engine: writes the text.
pub fn write_text<W: io::Write>(out: &mut CountedOut<W>, text: &[u8]) -> Result<(), ReportError>
    ensures { Writes result text.now
        (W.contents (writer_of out.old)) (W.contents (writer_of out.new))
        (failures_of out.old) (failures_of out.new) }
{
    if put_all(out, text) {
        Ok(())
    } else {
        Err(ReportError::Write)
    }
}
