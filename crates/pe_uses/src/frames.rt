//! What an unwinder undoes in the frame of a function.

use pe_image::{PE, ParseMode, ParseOptions, Register, Result, UnwindCode, UnwindInfo};
use std::alloc::Global;

/// What an unwind record says of a frame.
#[derive(Drop)]
pub struct Frame {
    /// The codes to undo, in order. Each has run once `code_offset` bytes of the function have.
    pub codes: Vec<UnwindCode>,
    /// The frame register and its offset in bytes, if the record has one. Saves count from the register less its offset once
    /// the record's `SetFPRegister` has run, and in all of a record that names the register and does not set it; else from
    /// rsp. `step` of pe_frame does all of this.
    pub frame_register: Option<(Register, u32)>,
}

/// The codes of a record that have run when `offset` bytes of the function have.
pub fn frame_of(alloc: Global, record: &UnwindInfo, offset: u32) -> Result<Frame> {
    let mut codes = Vec::new(alloc);
    for code in record {
        let code = code?;
        if u32::from(code.code_offset) <= offset {
            codes.push(code)?;
        }
    }
    let frame_register = if record.frame_register == Register(0) {
        None
    } else {
        Some((record.frame_register, record.frame_register_offset))
    };
    Ok(Frame {
        codes,
        frame_register,
    })
}

/// The frame of the x64 function that covers an RVA, as it is at that RVA: inside the prolog only what has run is to be
/// undone. `None` without such a function, or if the exception directory is damaged.
pub fn frame_at(alloc: Global, bytes: &[u8], rva: u32) -> Result<Option<Frame>> {
    let opts = ParseOptions::default().with_parse_mode(ParseMode::Permissive);
    let image = PE::parse_with_opts(alloc, bytes, &opts)?;
    let Some(exceptions) = image.x64_exceptions() else {
        return Ok(None);
    };
    let Some(function) = exceptions.find_function(rva)? else {
        return Ok(None);
    };
    let record = exceptions.get_unwind_info_with_opts(function, &image.sections, &opts)?;
    let offset = rva.saturating_sub(function.begin_address);
    Ok(Some(frame_of(alloc, &record, offset)?))
}
