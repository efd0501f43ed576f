//! Why a block of version information is not read.

ghost use Rattle.std.specs.Prelude.{◌≡◌};
ghost use Rattle.pe_resource.specs.declared.version_block_error.VersionBlockError.TheVariants.{Image};

/// Why a block of version information is not read. `KeyEnd` costs this block alone; each other error of a block ends the
/// blocks that it is one of, since its length does not lead to the next one.
#[derive(Debug, Drop, thiserror::Error)]
pub enum VersionBlockError {
    /// An error of pe_core: `Short` if fewer bytes are left than the 6 of a block's head. Of a leaf also `Unmapped` and
    /// `ResourceBounds`.
    #[error("{0}")]
    Image(pe_core::Error),
    /// The length of a block, which is below the 6 bytes of its head and not 0.
    #[error("version block of {0} bytes, smaller than 6")]
    BelowHead(u16),
    /// A block that ends after the block that it belongs to: its length, and how many bytes are left from its start on.
    #[error("version block truncated: {length} bytes needed, {left} left")]
    PastEnd { length: u16, left: usize },
    /// The length of a block in which the key has no zero code unit.
    #[error("key of a version block is not NUL-terminated in its {0} bytes")]
    KeyEnd(u16),
}

// So that `?` returns an error of pe_core as `Image`.
impl From<pe_core::Error> for VersionBlockError {
    ghost from_gives = { λ error e. e ≡ Image error };

    fn from(error: pe_core::Error) -> VersionBlockError {
        VersionBlockError::Image(error)
    }
}
