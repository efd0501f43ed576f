//! Why the resources of an image are not changed.

ghost use Rattle.std.specs.Prelude.{◌≡◌};
ghost use Rattle.pe_rewrite.specs.declared.error.RewriteError.TheVariants.{Image, Leaves};

use pe_edit::EditError;

/// Why the resources of an image can't be changed. Offsets are file offsets.
#[derive(Debug, Drop, thiserror::Error)]
pub enum RewriteError {
    /// An error of the image or the buffer: `NoOptionalHeader`; `Short` if the section table is truncated; `WriteFit` if
    /// the buffer is too small.
    #[error("{0}")]
    Image(pe_core::Error),
    /// How many data directories the optional header has, fewer than three: none of them is that of the resources.
    #[error("no resource directory: the optional header has {0} data directories")]
    NoDirectory(usize),
    /// The image has certificates, whose digest would be wrong: `pe_sign::detach` takes them off.
    #[error("image has certificates, which have to be detached first")]
    Signed,
    /// The resources have no section.
    #[error("{0}")]
    Leaves(EditError),
    /// The offset of the section table: the data directories end after it.
    #[error("data directories end after the section table, which is at file offset {0:#x}")]
    Headers(usize),
    /// The alignment of sections in memory, below 4096, or that of their data in the file, below 512 or no power of two.
    #[error("alignment {0:#x} of sections or of their data is too small or no power of two")]
    Alignment(u32),
    /// The RVA of the resource directory, at which no section starts, or 0 where there is none.
    #[error("no section starts at the resource directory's RVA {0:#x}")]
    NoSection(u32),
    /// The index of the resource section, whose data start before the end of the section table, end after the end of the
    /// file, or are not aligned to 512.
    #[error("data of section {0} start in the headers, end after the end of the file, or are not aligned to 512")]
    Section(usize),
    /// The RVA of the entry point or of another directory, which lies where the resources go; or that of the directory of base
    /// relocations, of which one changes what is there.
    #[error("the entry point, another directory or base relocations, at the RVA {0:#x}, lead where the resources go")]
    SharedSection(u32),
    /// The offset of the COFF symbols, which lie in the data of the resource section.
    #[error("COFF symbols at file offset {0:#x} lie in the data of the resource section")]
    Symbols(u32),
    /// The index of a section that shares bytes of the file or RVAs with the resource section or the headers.
    #[error("section {0} shares bytes of the file or RVAs with the resource section or the headers")]
    Overlap(usize),
    /// The resources do not fit into the data of the resource section, or end after the image in memory, by `SizeOfImage`.
    #[error("resources of {needed:#x} bytes do not fit into the {room:#x} bytes of their section's data, or into the image in memory")]
    NoRoom {
        /// The size of the resources in bytes.
        needed: usize,
        /// The size of the data of the resource section in bytes.
        room: u32,
    },
    /// The offset at which the section table ends: there is no room of 40 zeros for another section header, or there are 65,535
    /// sections.
    #[error("no room for another section header at file offset {0:#x}")]
    NoHeaderRoom(usize),
    /// The image with the resources, in memory or in the file, ends after 4 GB.
    #[error("image with the resources ends after 4 GB")]
    ImageTooLarge,
    /// The offset of a debug entry whose data lie in those of the section, or only in part after the data of all sections; or that
    /// of the first debug entry, if they do not lie between the section headers and the section's data.
    #[error("debug entries or their data, at file offset {0:#x}, lie where the resources go")]
    DebugData(usize),
}

// So that `?` returns an error of pe_core as `Image`.
impl From<pe_core::Error> for RewriteError {
    ghost from_gives = { λ error e. e ≡ Image error };

    fn from(error: pe_core::Error) -> RewriteError {
        RewriteError::Image(error)
    }
}

// So that `?` returns an error of pe_edit as `Leaves`.
impl From<EditError> for RewriteError {
    ghost from_gives = { λ error e. e ≡ Leaves error };

    fn from(error: EditError) -> RewriteError {
        RewriteError::Leaves(error)
    }
}
