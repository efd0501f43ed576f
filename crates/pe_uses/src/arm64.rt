//! The unwind codes of ARM64 functions.

use pe_image::{Arm64UnwindCodeData, PE, ParseMode, ParseOptions, Result};
use std::alloc::Global;

/// The codes of each function whose unwind data are not packed into its entry: those of its prolog up to `End`, and
/// then those of its epilogs. None for an image of another machine, or if the exception directory is damaged.
pub fn arm64_codes(alloc: Global, bytes: &[u8]) -> Result<Vec<Arm64UnwindCodeData>> {
    let opts = ParseOptions::default().with_parse_mode(ParseMode::Permissive);
    let image = PE::parse_with_opts(alloc, bytes, &opts)?;
    codes_of(alloc, &image)
}

/// The same of an image that is parsed.
fn codes_of(alloc: Global, image: &PE) -> Result<Vec<Arm64UnwindCodeData>> {
    let mut codes = Vec::new(alloc);
    let Some(exceptions) = image.arm64_exceptions() else {
        return Ok(codes);
    };
    for function in exceptions.functions_arm64() {
        if let Some(info) = exceptions.get_unwind_info_arm64(function?, &image.sections) {
            for code in info?.unwind_codes(0)? {
                codes.push(code?)?;
            }
        }
    }
    Ok(codes)
}
