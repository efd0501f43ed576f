//! Why a directory of an image is not read.

ghost use Rattle.std.specs.Prelude.{◌≡◌};
ghost use Rattle.pe_core.specs.declared.error.Error.TheVariants.{Memory};
ghost use Rattle.pe_directories.specs.declared.error.DirectoryError.TheVariants.{Image};

use std::alloc::{AllocError, AllocFailed};

/// Why a directory, or an item of a walk through one, is not read.
#[derive(Debug, Drop, thiserror::Error)]
pub enum DirectoryError {
    /// An error of pe_core: `Unmapped` if an RVA is not mapped, `Short` if a record is truncated, `BadMagic` with the
    /// signature that CLR metadata have instead, `Memory` if memory runs out.
    #[error("{0}")]
    Image(pe_core::Error),
    /// The size of a block of base relocations, which is below the 8 bytes of its header, or odd.
    #[error("base relocation block of {0} bytes: the size is below 8 or odd")]
    BlockSize(u32),
    /// A block of base relocations that ends after the directory: its size, and how many bytes the directory has from
    /// its start on.
    #[error("base relocation block truncated: {size} bytes needed, {length} left")]
    BlockTruncated { size: u32, length: usize },
    /// The RVA of an `IMAGE_REL_BASED_HIGHADJ` at the end of its block, without the entry that is its argument.
    #[error("base relocation at RVA {0:#x} has no argument")]
    NoArgument(usize),
    /// A virtual address below the image base, which has no RVA.
    #[error("virtual address {0:#x} is below the image base")]
    VaBelowBase(u64),
    /// The size that a CLR header says it has, below 72 bytes.
    #[error("CLR header of {0} bytes, smaller than 72")]
    ClrHeaderSize(u32),
    /// The name of a stream of CLR metadata does not end in the 32 bytes that it may have.
    #[error("name of a metadata stream is not NUL-terminated in 32 bytes")]
    StreamName,
    /// The offset of the name of a delay-loaded DLL or function, which is not NUL-terminated or not UTF-8.
    #[error("name of a delay import at offset {0:#x} is not NUL-terminated or not UTF-8")]
    DelayImportName(usize),
    /// The offset of the name of a bound DLL, from the start of the directory, which is not NUL-terminated in the
    /// directory or not UTF-8.
    #[error("name of a bound import at offset {0:#x} is not NUL-terminated or not UTF-8")]
    BoundImportName(u16),
    /// A base relocation of a type that depends on the machine, or of one that nothing applies: its type, and the RVA that it
    /// changes.
    #[error("base relocation of type {kind} at RVA {rva:#x} is not applied")]
    RelocationKind { kind: u8, rva: usize },
    /// The RVA of a base relocation whose number is not in the image.
    #[error("base relocation at RVA {0:#x} is outside of the image")]
    RelocationOutside(usize),
}

// So that `?` returns an error of pe_core as `Image`.
impl From<pe_core::Error> for DirectoryError {
    ghost from_gives = { λ error e. e ≡ Image error };

    fn from(error: pe_core::Error) -> DirectoryError {
        DirectoryError::Image(error)
    }
}

// So that `?` returns an allocation failure as `Image` with `Memory`.
impl From<AllocError> for DirectoryError {
    ghost from_gives = { λ _ e. e ≡ Image (Memory record {}) };

    fn from(error: AllocError) -> DirectoryError {
        DirectoryError::Image(pe_core::Error::from(error))
    }
}

impl<T: Drop> From<AllocFailed<T>> for DirectoryError {
    ghost from_gives = { λ _ e. e ≡ Image (Memory record {}) };

    fn from(failed: AllocFailed<T>) -> DirectoryError {
        DirectoryError::Image(pe_core::Error::from(failed))
    }
}

/// The result of a call that may fail with `DirectoryError`.
pub type Result<T> = std::result::Result<T, DirectoryError>;
