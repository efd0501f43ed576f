//! Thread-local storage, directory 9
//! ([layout](https://learn.microsoft.com/windows/win32/debug/pe-format#the-tls-section)): the data that each thread gets a
//! copy of, and the functions that run when a thread starts and ends, before the entry point for the first of them. All
//! addresses in it are virtual addresses. A debugger or a scanner walks through the callbacks.

ghost use Rattle.std.specs.Prelude.{◌≡◌, ◌+◌, ◌≤◌, length, IfOk};
ghost use Rattle.pe_directories.specs.DirectoryRefusals.{DirectoryReturns};
ghost use Rattle.pe_directories.specs.ImageParts.{image_view};
ghost use Rattle.pe_directories.specs.Tls.{tls_32, tls_64, tls_directory, alignment_of, callback_table};
ghost use Rattle.pe_directories.specs.VaTables.{vas_left, vas_are_64};

use crate::error::Result;
use crate::image_bytes::ImageBytes;
use crate::va_table::VaTable;
use pe_core::{DataDirectory, read_u32, read_u64};

/// The size of a TLS directory of PE32 in bytes.
const SIZE_OF_TLS_32: usize = 24;

/// The size of a TLS directory of PE32+ in bytes.
const SIZE_OF_TLS_64: usize = 40;

/// The TLS directory (`IMAGE_TLS_DIRECTORY32`, `IMAGE_TLS_DIRECTORY64`). Addresses are virtual addresses.
#[repr(C)]
#[derive(Clone, Copy, Debug, PartialEq)]
pub struct TlsDirectory {
    /// Where the data starts of which each thread gets a copy.
    pub start_address_of_raw_data: u64,
    /// Where this data ends.
    pub end_address_of_raw_data: u64,
    /// Where the loader writes the number of the slot that leads to a thread's copy.
    pub address_of_index: u64,
    /// Where the table of callbacks is. 0 if there are none.
    pub address_of_callbacks: u64,
    /// How many zeros follow the data in a thread's copy, in bytes.
    pub size_of_zero_fill: u32,
    /// The alignment of the data, in bits 20 to 23; see `alignment`.
    pub characteristics: u32,
}

impl TlsDirectory {
    /// The directory of PE32 at `offset`, whose 24 bytes the caller knows to lie in `bytes`.
    #[tactic(auto, unfolding(crate::specs::Tls::tls_32))]
    fn at_32(bytes: &[u8], offset: usize) -> TlsDirectory
        requires { offset + 24 ≤ length bytes.now }
        ensures { result ≡ tls_32 bytes.now offset }
    {
        TlsDirectory {
            start_address_of_raw_data: u64::from(read_u32(bytes, offset)),
            end_address_of_raw_data: u64::from(read_u32(bytes, offset + 4)),
            address_of_index: u64::from(read_u32(bytes, offset + 8)),
            address_of_callbacks: u64::from(read_u32(bytes, offset + 12)),
            size_of_zero_fill: read_u32(bytes, offset + 16),
            characteristics: read_u32(bytes, offset + 20),
        }
    }

    /// The directory of PE32+ at `offset`, whose 40 bytes the caller knows to lie in `bytes`.
    #[tactic(auto, unfolding(crate::specs::Tls::tls_64))]
    fn at_64(bytes: &[u8], offset: usize) -> TlsDirectory
        requires { offset + 40 ≤ length bytes.now }
        ensures { result ≡ tls_64 bytes.now offset }
    {
        TlsDirectory {
            start_address_of_raw_data: read_u64(bytes, offset),
            end_address_of_raw_data: read_u64(bytes, offset + 8),
            address_of_index: read_u64(bytes, offset + 16),
            address_of_callbacks: read_u64(bytes, offset + 24),
            size_of_zero_fill: read_u32(bytes, offset + 32),
            characteristics: read_u32(bytes, offset + 36),
        }
    }

    /// The TLS directory at the RVA of `directory`, 24 or 40 bytes, whatever its size says. Errors, in order: `Image`
    /// with `Unmapped`; `Image` with `Short`.
    #[tactic(auto, unfolding(crate::specs::Tls::tls_directory))]
    pub fn parse(image: &ImageBytes<'_>, directory: DataDirectory) -> Result<TlsDirectory>
        ensures { DirectoryReturns (λ t. t) result (tls_directory (image_view image.now) directory) }
    {
        if image.is_64 {
            let offset = image.record_at(directory.virtual_address, SIZE_OF_TLS_64)?;
            Ok(TlsDirectory::at_64(image.bytes, offset))
        } else {
            let offset = image.record_at(directory.virtual_address, SIZE_OF_TLS_32)?;
            Ok(TlsDirectory::at_32(image.bytes, offset))
        }
    }

    /// The alignment of the data in bytes. `None` if the directory states none, or 15, which has no meaning.
    pub fn alignment(&self) -> Option<u32>
        ensures { result ≡ alignment_of self.now.characteristics }
    {
        let number = self.characteristics / (1 << 20) % 16;
        if number == 0 || number == 15 {
            None
        } else {
            Some(1 << (number - 1))
        }
    }

    /// The callbacks, virtual addresses. Errors, in order: `VaBelowBase` if the address of their table is below the image
    /// base; `Image` with `Unmapped`.
    #[tactic(auto, unfolding(crate::specs::Tls::callback_table))]
    pub fn callbacks<'a>(&self, image: &ImageBytes<'a>) -> Result<VaTable<'a>>
        ensures left { DirectoryReturns vas_left result (callback_table (image_view image.now) self.now) }
        ensures width { IfOk result (λ s. vas_are_64 s ≡ image.now.is_64) }
    {
        if self.address_of_callbacks == 0 {
            return Ok(VaTable::over(image.is_64));
        }
        Ok(VaTable::new(image.table_at_va(self.address_of_callbacks)?, image.is_64))
    }
}
