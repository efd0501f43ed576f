//! Why a resource section is not written.

ghost use Rattle.std.specs.Prelude.{◌≡◌};
ghost use Rattle.pe_edit.specs.declared.error.EditError.TheVariants.{Image};

/// Why resources can't be written.
#[derive(Debug, Drop, thiserror::Error)]
pub enum EditError {
    /// `WriteFit` if the buffer is too small.
    #[error("{0}")]
    Image(pe_core::Error),
    /// How many resources there are, more than 65,535.
    #[error("{0} resources, more than 65,535")]
    TooMany(usize),
    /// The index of a resource whose type or name has an odd number of bytes, or more than 65,535 code units.
    #[error("type or name of resource {0} has an odd number of bytes, or more than 65,535 code units")]
    Name(usize),
    /// The index of a resource that does not come after the one before it.
    #[error("resource {0} is not sorted after the one before it")]
    Order(usize),
    /// The size of the directories, data entries and names in bytes, 2^31 or more: bit 31 of an offset has a meaning of
    /// its own.
    #[error("directories and names of the resources have {0:#x} bytes, 0x80000000 or more")]
    TablesTooLarge(usize),
    /// The section ends at the RVA 2^32 or after it.
    #[error("resource section ends at the RVA 0x100000000 or after it")]
    TooLarge,
}

// So that `?` returns an error of pe_core as `Image`.
impl From<pe_core::Error> for EditError {
    ghost from_gives = { λ error e. e ≡ Image error };

    fn from(error: pe_core::Error) -> EditError {
        EditError::Image(error)
    }
}

/// Why records are no list of resources.
#[derive(Debug, Drop, thiserror::Error)]
pub enum RecordError {
    /// The index of a record with a range that does not lie in the array, or with an id or a language of more than 16 bits.
    #[error("record {0} has a range outside of the array, or an id or a language above 65,535")]
    Record(usize),
    /// The names of the records have more than 16 MiB, each counted as often as a record has it.
    #[error("names of the records have more than 16 MiB")]
    Names,
    /// The contents of the records, each counted as often as a record has it, have more than 16 times the bytes of the array and
    /// of 1 MiB.
    #[error("contents of the records, which share bytes, have more than 16 times the bytes of the array and of 1 MiB")]
    Contents,
}
