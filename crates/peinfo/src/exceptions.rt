//! The lines of a function table, by the machine of the image: the entries of x64 and of ARM64 differ.

ghost use Rattle.std.specs.Prelude.{◌≡◌, ◌++◌, OnOk};
ghost use Rattle.pe_image.specs.Image.{image_view};
ghost use Rattle.peinfo.specs.FunctionLines.{function_lines, function_count};

use crate::functions;
use pe_image::PE;
use std::alloc::{AllocError, Allocator};

/// How many functions the exception data of an image has.
pub fn line_count<A: Allocator + Copy + Drop>(image: &PE<'_, A>) -> usize
    ensures { result ≡ function_count (image_view image.now) }
{
    match (image.arm64_exceptions(), &image.exception_data) {
        (Some(exceptions), _) => exceptions.len_arm64(),
        (None, Some(exceptions)) => exceptions.len(),
        (None, None) => 0,
    }
}

/// Adds the lines of the exception data of an image, if there is any.
#[tactic(auto, using(crate::proofs::FunctionItems::whole_items, crate::proofs::FunctionItems::whole_items_64))]
pub fn push_lines<T: Allocator, A: Allocator + Copy + Drop>(
    text: &mut Vec<u8, T>,
    image: &PE<'_, A>,
) -> Result<(), AllocError>
    ensures { OnOk result
        (text.new.items ≡ text.old.items ++ function_lines (image_view image.now)) }
{
    match (image.arm64_exceptions(), &image.exception_data) {
        (Some(exceptions), _) => functions::push_lines_64(text, exceptions.functions_arm64()),
        (None, Some(exceptions)) => functions::push_lines(text, exceptions.functions()),
        (None, None) => Ok(()),
    }
}
