//! What the readers of both contexts share.

ghost use Rattle.std.specs.Prelude.{◌≡◌, ◌+◌, ◌≤◌, ◌∷◌, [], length};
ghost use Rattle.pe_core.specs.Bytes.{holds, le};
ghost use Rattle.pe_core.specs.Refusals.{outcome};
ghost use Rattle.pe_minidump.specs.Refusals.{ContextSize, DumpReturns};

use crate::error::{DumpError, Result};
use pe_core::read_u64;

/// Returns `ContextSize` unless there are `needed` bytes.
pub(crate) fn require_context(bytes: &[u8], needed: usize) -> Result<()>
    ensures { DumpReturns (λ u. u) result (outcome ((holds bytes.now 0 needed, ContextSize) ∷ []) tt) }
{
    if bytes.len() < needed {
        return Err(DumpError::ContextSize {
            size: bytes.len(),
            needed,
        });
    }
    Ok(())
}

/// The `u128` at `offset`, whose 16 bytes the caller knows to lie in `bytes`.
#[tactic(auto, unfolding(pe_core::specs::Bytes::le))]
pub(crate) fn read_u128(bytes: &[u8], offset: usize) -> u128
    requires { offset + 16 ≤ length bytes.now }
    ensures { result ≡ le bytes.now offset 16 }
{
    u128::from(read_u64(bytes, offset)) + (u128::from(read_u64(bytes, offset + 8)) << 64)
}
