//! Why a block of version information is not written.

ghost use Rattle.std.specs.Prelude.{◌≡◌};
ghost use Rattle.pe_version.specs.declared.error.VersionError.TheVariants.{Image};

/// Why a block can't be written.
#[derive(Debug, Drop, thiserror::Error)]
pub enum VersionError {
    /// `WriteFit` if the buffer is too small; `Short` if a range of a record does not lie in its array.
    #[error("{0}")]
    Image(pe_core::Error),
    /// The key has an odd number of bytes, or a code unit of zero.
    #[error("key of a version block has an odd number of bytes, or a code unit of zero")]
    Key,
    /// The value is a text of an odd number of bytes.
    #[error("text of a version block has an odd number of bytes")]
    Text,
    /// The size of the block in bytes, above 65,535, or 65,536 where it is not known how much more it has.
    #[error("version block has {0} bytes, more than 65,535")]
    TooLong(usize),
}

// So that `?` returns an error of pe_core as `Image`.
impl From<pe_core::Error> for VersionError {
    ghost from_gives = { λ error e. e ≡ Image error };

    fn from(error: pe_core::Error) -> VersionError {
        VersionError::Image(error)
    }
}
