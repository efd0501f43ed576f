//! What an unwinder undoes up to the root of a chain of records.

use crate::frames::{Frame, frame_of};
use pe_image::{PE, ParseMode, ParseOptions, Result};
use pe_plan::UnwindPlan;
use std::alloc::Global;

/// What to undo at an RVA of an x64 function: its own record, of which only what has run applies inside the prolog, and
/// then, whole, each record to which it is chained, up to the root. `None` without such a function, or if the exception
/// directory is damaged.
pub fn frames_at(alloc: Global, bytes: &[u8], rva: u32) -> Result<Option<Vec<Frame>>> {
    let opts = ParseOptions::default().with_parse_mode(ParseMode::Permissive);
    let image = PE::parse_with_opts(alloc, bytes, &opts)?;
    let Some(exceptions) = image.x64_exceptions() else {
        return Ok(None);
    };
    let Some(function) = exceptions.find_function(rva)? else {
        return Ok(None);
    };
    let records = UnwindPlan::of_function(alloc, exceptions, function, &image.sections, &opts)?;
    let mut frames = Vec::new(alloc);
    let mut offset = rva.saturating_sub(function.begin_address);
    for record in records.iter() {
        frames.push(frame_of(alloc, record, offset)?)?;
        offset = u32::MAX;
    }
    Ok(Some(frames))
}
