//! The optional header of an image, PE32 or PE32+
//! ([layout](https://learn.microsoft.com/windows/win32/debug/pe-format#optional-header-image-only)): the standard
//! fields of COFF, the fields of Windows, then the data directories. A caller gets it from `Header::optional_header`,
//! and takes from it the image base, the file alignment for the section map, and the directories.

ghost use Rattle.std.specs.Prelude.{◌≡◌, ◌<◌, ◌==◌, ◌||◌, IsTrue};
ghost use Rattle.pe_core.specs.Pe32.{IsPe32};

use crate::bytes::{read_u8, read_u16, read_u32, read_u64, require_bytes, u16_at};
use crate::data_directories::DataDirectories;
use crate::error::{Error, Result};

/// The magic number of an optional header of PE32.
pub const MAGIC_32: u16 = 0x10B;

/// The magic number of an optional header of PE32+.
pub const MAGIC_64: u16 = 0x20B;

/// The fields that COFF defines: 28 bytes in PE32, 24 in PE32+.
#[derive(Clone, Copy, Debug, PartialEq)]
pub struct StandardFields {
    /// `MAGIC_32` for PE32, `MAGIC_64` for PE32+.
    pub magic: u16,
    /// The major version number of the linker.
    pub major_linker_version: u8,
    /// The minor version number of the linker.
    pub minor_linker_version: u8,
    /// The size of all sections of code, in bytes.
    pub size_of_code: u32,
    /// The size of all sections of initialized data, in bytes.
    pub size_of_initialized_data: u32,
    /// The size of all sections of uninitialized data, in bytes.
    pub size_of_uninitialized_data: u32,
    /// The RVA of the entry point. 0 if there is none.
    pub address_of_entry_point: u32,
    /// The RVA of the code.
    pub base_of_code: u32,
    /// The RVA of the data. 0 in PE32+, which has no such field.
    pub base_of_data: u32,
}

impl StandardFields {
    ghost use Rattle.std.specs.Prelude.{◌+◌, ◌≤◌, length};
    ghost use Rattle.pe_core.specs.Bytes.{le};
    ghost use Rattle.pe_core.specs.Records.{standard_fields_32, standard_fields_64};

    /// The fields of PE32+, 24 bytes.
    #[tactic(auto, unfolding(crate::specs::Records::standard_fields_64))]
    fn pe32_plus_at(bytes: &[u8], offset: usize) -> StandardFields
        requires { offset + 24 ≤ length bytes.now }
        ensures value { result ≡ standard_fields_64 bytes.now offset }
        ensures magic { result.magic ≡ le bytes.now offset 2 }
    {
        StandardFields {
            magic: read_u16(bytes, offset),
            major_linker_version: read_u8(bytes, offset + 2),
            minor_linker_version: read_u8(bytes, offset + 3),
            size_of_code: read_u32(bytes, offset + 4),
            size_of_initialized_data: read_u32(bytes, offset + 8),
            size_of_uninitialized_data: read_u32(bytes, offset + 12),
            address_of_entry_point: read_u32(bytes, offset + 16),
            base_of_code: read_u32(bytes, offset + 20),
            base_of_data: 0,
        }
    }

    /// The fields of PE32, 28 bytes: the same, and then the base of data.
    #[tactic(auto, unfolding(crate::specs::Records::standard_fields_32))]
    fn pe32_at(bytes: &[u8], offset: usize) -> StandardFields
        requires { offset + 28 ≤ length bytes.now }
        ensures value { result ≡ standard_fields_32 bytes.now offset }
        ensures magic { result.magic ≡ le bytes.now offset 2 }
    {
        StandardFields {
            base_of_data: read_u32(bytes, offset + 24),
            ..StandardFields::pe32_plus_at(bytes, offset)
        }
    }
}

/// The fields that Windows adds: 68 bytes in PE32, 88 in PE32+. The fields of 8 bytes have 4 in PE32.
#[derive(Clone, Copy, Debug, PartialEq)]
pub struct WindowsFields {
    /// The preferred virtual address of the first byte of the image. Add it to an RVA for a virtual address.
    pub image_base: u64,
    /// The alignment of sections in memory, in bytes.
    pub section_alignment: u32,
    /// The alignment of the sections' data in the file, in bytes. The section map needs it.
    pub file_alignment: u32,
    /// The major version number of the required operating system.
    pub major_operating_system_version: u16,
    /// The minor version number of the required operating system.
    pub minor_operating_system_version: u16,
    /// The major version number of the image.
    pub major_image_version: u16,
    /// The minor version number of the image.
    pub minor_image_version: u16,
    /// The major version number of the subsystem.
    pub major_subsystem_version: u16,
    /// The minor version number of the subsystem.
    pub minor_subsystem_version: u16,
    /// Reserved.
    pub win32_version_value: u32,
    /// The size of the image in memory, in bytes.
    pub size_of_image: u32,
    /// The size of all headers in bytes, rounded up to the file alignment.
    pub size_of_headers: u32,
    /// The checksum of the image file. It is not checked.
    pub check_sum: u32,
    /// The subsystem that runs the image, `IMAGE_SUBSYSTEM_*` of winnt.h.
    pub subsystem: u16,
    /// Flags, `IMAGE_DLLCHARACTERISTICS_*` of winnt.h.
    pub dll_characteristics: u16,
    /// The size of the stack to reserve, in bytes.
    pub size_of_stack_reserve: u64,
    /// The size of the stack to commit, in bytes.
    pub size_of_stack_commit: u64,
    /// The size of the heap to reserve, in bytes.
    pub size_of_heap_reserve: u64,
    /// The size of the heap to commit, in bytes.
    pub size_of_heap_commit: u64,
    /// Reserved.
    pub loader_flags: u32,
    /// The number of data directories as the header states it, which may be above the 16 that are kept.
    pub number_of_rva_and_sizes: u32,
}

impl WindowsFields {
    ghost use Rattle.std.specs.Prelude.{◌+◌, ◌≤◌, length};
    ghost use Rattle.pe_core.specs.Records.{windows_fields_32, windows_fields_64};

    /// The fields of PE32, 68 bytes.
    #[tactic(auto, unfolding(crate::specs::Records::windows_fields_32))]
    fn pe32_at(bytes: &[u8], offset: usize) -> WindowsFields
        requires { offset + 68 ≤ length bytes.now }
        ensures value { result ≡ windows_fields_32 bytes.now offset }
        ensures pe32 { IsPe32 result }
    {
        WindowsFields {
            image_base: u64::from(read_u32(bytes, offset)),
            section_alignment: read_u32(bytes, offset + 4),
            file_alignment: read_u32(bytes, offset + 8),
            major_operating_system_version: read_u16(bytes, offset + 12),
            minor_operating_system_version: read_u16(bytes, offset + 14),
            major_image_version: read_u16(bytes, offset + 16),
            minor_image_version: read_u16(bytes, offset + 18),
            major_subsystem_version: read_u16(bytes, offset + 20),
            minor_subsystem_version: read_u16(bytes, offset + 22),
            win32_version_value: read_u32(bytes, offset + 24),
            size_of_image: read_u32(bytes, offset + 28),
            size_of_headers: read_u32(bytes, offset + 32),
            check_sum: read_u32(bytes, offset + 36),
            subsystem: read_u16(bytes, offset + 40),
            dll_characteristics: read_u16(bytes, offset + 42),
            size_of_stack_reserve: u64::from(read_u32(bytes, offset + 44)),
            size_of_stack_commit: u64::from(read_u32(bytes, offset + 48)),
            size_of_heap_reserve: u64::from(read_u32(bytes, offset + 52)),
            size_of_heap_commit: u64::from(read_u32(bytes, offset + 56)),
            loader_flags: read_u32(bytes, offset + 60),
            number_of_rva_and_sizes: read_u32(bytes, offset + 64),
        }
    }

    /// The fields of PE32+, 88 bytes.
    #[tactic(auto, unfolding(crate::specs::Records::windows_fields_64))]
    fn pe32_plus_at(bytes: &[u8], offset: usize) -> WindowsFields
        requires { offset + 88 ≤ length bytes.now }
        ensures { result ≡ windows_fields_64 bytes.now offset }
    {
        WindowsFields {
            image_base: read_u64(bytes, offset),
            section_alignment: read_u32(bytes, offset + 8),
            file_alignment: read_u32(bytes, offset + 12),
            major_operating_system_version: read_u16(bytes, offset + 16),
            minor_operating_system_version: read_u16(bytes, offset + 18),
            major_image_version: read_u16(bytes, offset + 20),
            minor_image_version: read_u16(bytes, offset + 22),
            major_subsystem_version: read_u16(bytes, offset + 24),
            minor_subsystem_version: read_u16(bytes, offset + 26),
            win32_version_value: read_u32(bytes, offset + 28),
            size_of_image: read_u32(bytes, offset + 32),
            size_of_headers: read_u32(bytes, offset + 36),
            check_sum: read_u32(bytes, offset + 40),
            subsystem: read_u16(bytes, offset + 44),
            dll_characteristics: read_u16(bytes, offset + 46),
            size_of_stack_reserve: read_u64(bytes, offset + 48),
            size_of_stack_commit: read_u64(bytes, offset + 56),
            size_of_heap_reserve: read_u64(bytes, offset + 64),
            size_of_heap_commit: read_u64(bytes, offset + 72),
            loader_flags: read_u32(bytes, offset + 80),
            number_of_rva_and_sizes: read_u32(bytes, offset + 84),
        }
    }
}

/// The optional header. Its magic number is one of the two; in PE32 the fields of 8 bytes are below 2^32.
#[derive(Clone, Copy, Debug, PartialEq)]
pub struct OptionalHeader {
    /// The fields of COFF.
    pub standard_fields: StandardFields,
    /// The fields of Windows.
    pub windows_fields: WindowsFields,
    /// The data directories, at most 16.
    pub data_directories: DataDirectories,
    ghost known_magic: { IsTrue (standard_fields.magic == 0x10B || standard_fields.magic == 0x20B) },
    ghost pe32: { standard_fields.magic ≡ 0x10B → IsPe32 windows_fields },
}

impl OptionalHeader {
    ghost use Rattle.std.specs.Prelude.{◌+◌};
    ghost use Rattle.pe_core.specs.Refusals.{ReturnsAs};
    ghost use Rattle.pe_core.specs.Header.{optional_header_view, optional_header_at};

    /// The optional header at `offset`. Its length follows from its magic number and its number of directories
    /// alone. Errors, in order:
    /// - `Short`: the magic number; `BadMagic`: it is neither `MAGIC_32` nor `MAGIC_64`;
    /// - `Short`: the standard fields and the fields of Windows;
    /// - `Short`: the directories that are kept.
    #[tactic(auto, unfolding(crate::specs::Header::optional_header_tests, crate::specs::Header::optional_header))]
    pub fn parse(bytes: &[u8], offset: usize) -> Result<OptionalHeader>
        ensures { ReturnsAs optional_header_view result (optional_header_at bytes.now offset) }
    {
        match u16_at(bytes, offset)? {
            MAGIC_32 => {
                // The fields first: they hold the number of directories.
                require_bytes(bytes, offset, 96)?;
                let windows_fields = WindowsFields::pe32_at(bytes, offset + 28);
                let count = windows_fields.number_of_rva_and_sizes;
                require_bytes(bytes, offset + 96, 8 * count.min(16) as usize)?;
                Ok(OptionalHeader {
                    standard_fields: StandardFields::pe32_at(bytes, offset),
                    windows_fields,
                    data_directories: DataDirectories::at(bytes, offset + 96, count),
                })
            }
            MAGIC_64 => {
                require_bytes(bytes, offset, 112)?;
                let windows_fields = WindowsFields::pe32_plus_at(bytes, offset + 24);
                let count = windows_fields.number_of_rva_and_sizes;
                require_bytes(bytes, offset + 112, 8 * count.min(16) as usize)?;
                Ok(OptionalHeader {
                    standard_fields: StandardFields::pe32_plus_at(bytes, offset),
                    windows_fields,
                    data_directories: DataDirectories::at(bytes, offset + 112, count),
                })
            }
            other => Err(Error::BadMagic(u64::from(other))),
        }
    }
}
