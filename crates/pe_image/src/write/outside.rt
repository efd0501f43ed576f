//! Writes what of a piece lies outside a range of the buffer, which later pieces cover. So sections that share bytes are
//! not written over each other, each as a whole.

ghost use Rattle.std.specs.Prelude.{◌≡◌, ◌+◌, ◌≤◌, length, replicate};
ghost use Rattle.pe_image.specs.WritingSteps.{outside, parts_outside, put_in_turn};

use pe_core::{set_slice, set_zeros};

/// Of `length` bytes at `offset`: how many lie before the range `covered`, and how many before what lies after it.
fn outside(covered: (usize, usize), offset: usize, length: usize) -> (usize, usize)
    ensures { result ≡ outside covered offset length }
{
    let (start, end) = covered;
    let before = start.saturating_sub(offset).min(length);
    let after = end.saturating_sub(offset).min(length);
    (before, before.max(after))
}

/// Writes what of `piece` at `offset` lies outside the range `covered`. The caller has checked that `piece` fits.
#[tactic(auto, unfolding(crate::specs::WritingSteps::put_in_turn))]
pub fn set_slice_outside(buffer: &mut [u8], covered: (usize, usize), offset: usize, piece: &[u8])
    requires { offset + length piece.now ≤ length buffer.old }
    ensures { buffer.new ≡ put_in_turn buffer.old (parts_outside covered offset piece.now) }
{
    let (before, after) = outside(covered, offset, piece.len());
    set_slice(buffer, offset, &piece[..before]);
    set_slice(buffer, offset + after, &piece[after..]);
}

/// Writes what of `n` zeros at `offset` lies outside the range `covered`. The caller has checked that they fit.
#[tactic(auto, unfolding(crate::specs::WritingSteps::put_in_turn))]
pub fn set_zeros_outside(buffer: &mut [u8], covered: (usize, usize), offset: usize, n: usize)
    requires { offset + n ≤ length buffer.old }
    ensures { buffer.new ≡ put_in_turn buffer.old
        (parts_outside covered offset (replicate n 0)) }
{
    let (before, after) = outside(covered, offset, n);
    set_zeros(buffer, offset, before);
    set_zeros(buffer, offset + after, n - after);
}
