//! Why an entry of a resource tree has no leaves.

ghost use Rattle.std.specs.Prelude.{◌≡◌};
ghost use Rattle.pe_resource.specs.declared.tree_error.ResourceTreeError.TheVariants.{Image};

/// Why an entry of a resource tree has no leaf. The offsets count from the first directory.
#[derive(Debug, Drop, thiserror::Error)]
pub enum ResourceTreeError {
    /// An error of pe_core: `Short` if a directory, its entries or a data entry is truncated.
    #[error("{0}")]
    Image(pe_core::Error),
    /// The offset of a data entry to which the entry of a type or a name leads: there is no directory of names or of
    /// languages.
    #[error("resource data entry at {0:#x} above the level of languages")]
    NotDirectory(u32),
    /// The offset of a directory to which the entry of a language leads: the tree has more than three levels there, or it
    /// is a ring.
    #[error("resource directory at {0:#x} below the level of languages")]
    NotData(u32),
    /// The offset of a directory of names or languages that has no entries.
    #[error("resource directory at {0:#x} has no entries")]
    NoEntries(u32),
}

// So that `?` returns an error of pe_core as `Image`.
impl From<pe_core::Error> for ResourceTreeError {
    ghost from_gives = { λ error e. e ≡ Image error };

    fn from(error: pe_core::Error) -> ResourceTreeError {
        ResourceTreeError::Image(error)
    }
}
