//! The load configuration, directory 10
//! ([layout](https://learn.microsoft.com/windows/win32/debug/pe-format#the-load-configuration-structure-image-only)): what
//! guards an image against attacks. Versions of Windows have added fields at its end, so its first field says how many
//! bytes it has, and a field after these is absent; so is one that is not whole in the file. The directory's size is not
//! used: by Microsoft's page it is a check of the version, and 64 in x86 images for Windows XP, whatever the structure has.
//!
//! A scanner reads whether an image has a security cookie, safe exception handlers (x86) and guards of control flow. The
//! tables that it leads to are at virtual addresses: `guard_table` walks through those of code, and
//! `ImageBytes::offset_of_va` leads to others.

ghost use Rattle.std.specs.Prelude.{◌≡◌};
ghost use Rattle.pe_directories.specs.DirectoryRefusals.{DirectoryReturns};
ghost use Rattle.pe_directories.specs.ImageParts.{image_view};
ghost use Rattle.pe_directories.specs.LoadConfig.{code_integrity, config_of, guard_functions, guard_tables, load_config, load_metadata, number, process_settings, return_flow_guard, structure_view, wide};

use crate::error::Result;
use crate::image_bytes::ImageBytes;
use pe_core::{DataDirectory, read_u32, u16_at, u32_at, u64_at};

/// What the loader sets for a process whose program the image is. A field is `None` where the structure does not have it, and so
/// in all that follow.
#[derive(Clone, Copy)]
pub struct ProcessSettings {
    /// Global flags that are cleared (`GlobalFlagsClear`).
    pub global_flags_clear: Option<u32>,
    /// Global flags that are set (`GlobalFlagsSet`).
    pub global_flags_set: Option<u32>,
    /// The time after which a wait for a critical section ends, in milliseconds (`CriticalSectionDefaultTimeout`).
    pub critical_section_default_timeout: Option<u32>,
    /// How many bytes a free block of the heap needs to be decommitted (`DeCommitFreeBlockThreshold`).
    pub de_commit_free_block_threshold: Option<u64>,
    /// How many bytes of the heap need to be free before any is decommitted (`DeCommitTotalFreeThreshold`).
    pub de_commit_total_free_threshold: Option<u64>,
    /// The virtual address of a table of virtual addresses of `lock` prefixes, on x86 (`LockPrefixTable`).
    pub lock_prefix_table: Option<u64>,
    /// The size of the largest allocation in bytes (`MaximumAllocationSize`).
    pub maximum_allocation_size: Option<u64>,
    /// From how many bytes on the heap takes virtual memory for a block (`VirtualMemoryThreshold`).
    pub virtual_memory_threshold: Option<u64>,
    /// The processors that the process runs on, as a mask (`ProcessAffinityMask`).
    pub process_affinity_mask: Option<u64>,
    /// The flags of `HeapCreate` for the heap of the process (`ProcessHeapFlags`).
    pub process_heap_flags: Option<u32>,
    /// The version of the service pack (`CSDVersion`).
    pub csd_version: Option<u16>,
    /// Reserved (`EditList`).
    pub edit_list: Option<u64>,
}

/// Code integrity (`IMAGE_LOAD_CONFIG_CODE_INTEGRITY`).
#[derive(Clone, Copy)]
pub struct CodeIntegrity {
    /// Flags (`Flags`).
    pub flags: Option<u16>,
    /// The index of a catalog, 0xFFFF for none (`Catalog`).
    pub catalog: Option<u16>,
    /// The offset of the catalog (`CatalogOffset`).
    pub catalog_offset: Option<u32>,
    /// Reserved (`Reserved`).
    pub reserved: Option<u32>,
}

/// The tables of code that came after that of functions, by the virtual address of each and its number of entries.
#[derive(Clone, Copy)]
pub struct GuardTables {
    /// Entries of the import address table whose address is taken (`GuardAddressTakenIatEntryTable`).
    pub address_taken_iat_entry_table: Option<u64>,
    /// How many there are (`GuardAddressTakenIatEntryCount`).
    pub address_taken_iat_entry_count: Option<u64>,
    /// Targets of `longjmp` (`GuardLongJumpTargetTable`).
    pub long_jump_target_table: Option<u64>,
    /// How many there are (`GuardLongJumpTargetCount`).
    pub long_jump_target_count: Option<u64>,
    /// Where execution goes on after exceptions (`GuardEHContinuationTable`).
    pub eh_continuation_table: Option<u64>,
    /// How many there are (`GuardEHContinuationCount`).
    pub eh_continuation_count: Option<u64>,
}

/// Return flow guard (`GuardRF`), which Windows does not use any more: virtual addresses.
#[derive(Clone, Copy)]
pub struct ReturnFlowGuard {
    /// The function that runs after a failure (`GuardRFFailureRoutine`).
    pub failure_routine: Option<u64>,
    /// The pointer to it (`GuardRFFailureRoutineFunctionPointer`).
    pub failure_routine_function_pointer: Option<u64>,
    /// The pointer to the function that checks the stack pointer (`GuardRFVerifyStackPointerFunctionPointer`).
    pub verify_stack_pointer_function_pointer: Option<u64>,
}

/// What else the loader reads: where the image is changed as it is loaded, and what it is besides.
#[derive(Clone, Copy)]
pub struct LoadMetadata {
    /// The virtual address of the dynamic value relocations (`DynamicValueRelocTable`).
    pub dynamic_value_reloc_table: Option<u64>,
    /// Their offset in a section (`DynamicValueRelocTableOffset`).
    pub dynamic_value_reloc_table_offset: Option<u32>,
    /// The number of this section, from 1 on (`DynamicValueRelocTableSection`).
    pub dynamic_value_reloc_table_section: Option<u16>,
    /// The virtual address of the metadata of a hybrid image, x86 or x64 code on ARM64 (`CHPEMetadataPointer`).
    pub chpe_metadata_pointer: Option<u64>,
    /// The RVA of the hot-patch information (`HotPatchTableOffset`).
    pub hot_patch_table_offset: Option<u32>,
    /// The virtual address of the configuration of an enclave (`EnclaveConfigurationPointer`).
    pub enclave_configuration_pointer: Option<u64>,
    /// The virtual address of the metadata of volatile accesses (`VolatileMetadataPointer`).
    pub volatile_metadata_pointer: Option<u64>,
}

/// The pointers to functions that later guards call, by their virtual addresses.
#[derive(Clone, Copy)]
pub struct GuardFunctions {
    /// What checks the target of an indirect call, and its type (`GuardXFGCheckFunctionPointer`).
    pub xfg_check_function_pointer: Option<u64>,
    /// What checks both and calls it (`GuardXFGDispatchFunctionPointer`).
    pub xfg_dispatch_function_pointer: Option<u64>,
    /// The same by a table (`GuardXFGTableDispatchFunctionPointer`).
    pub xfg_table_dispatch_function_pointer: Option<u64>,
    /// The virtual address of what a wrong cast comes to (`CastGuardOsDeterminedFailureMode`).
    pub cast_guard_os_determined_failure_mode: Option<u64>,
    /// What copies memory under guard (`GuardMemcpyFunctionPointer`).
    pub guard_memcpy_function_pointer: Option<u64>,
}

/// The load configuration (`IMAGE_LOAD_CONFIG_DIRECTORY32`, `IMAGE_LOAD_CONFIG_DIRECTORY64`). A field is `None` where the
/// structure is too short to have it, or the file ends before it does.
#[derive(Clone, Copy)]
pub struct LoadConfig {
    /// The size of the structure in bytes, as it says itself.
    pub size: u32,
    /// When it was made, in seconds since 1970.
    pub time_date_stamp: Option<u32>,
    /// The major part of a version.
    pub major_version: Option<u16>,
    /// The minor part of a version.
    pub minor_version: Option<u16>,
    /// What the loader sets for a process.
    pub process: ProcessSettings,
    /// Where DLLs that the image imports are looked for: flags of `LoadLibraryEx` (`DependentLoadFlags`).
    pub dependent_load_flags: Option<u16>,
    /// The virtual address of the security cookie.
    pub security_cookie: Option<u64>,
    /// The virtual address of the sorted table of the RVAs of exception handlers, on x86: `se_handlers`.
    pub se_handler_table: Option<u64>,
    /// The number of exception handlers in the table.
    pub se_handler_count: Option<u64>,
    /// The virtual address of the pointer to the function that checks the target of an indirect call.
    pub guard_cf_check_function_pointer: Option<u64>,
    /// The virtual address of the pointer to the function that checks the target and calls it.
    pub guard_cf_dispatch_function_pointer: Option<u64>,
    /// The virtual address of the sorted table of the functions that may be called indirectly: `guard_cf_functions`.
    pub guard_cf_function_table: Option<u64>,
    /// The number of functions in the table.
    pub guard_cf_function_count: Option<u64>,
    /// Flags, `IMAGE_GUARD_*`. Bits 28 to 31 are how many bytes an entry of a table has after its RVA.
    pub guard_flags: Option<u32>,
    /// Code integrity.
    pub code_integrity: CodeIntegrity,
    /// Tables of code.
    pub guard_tables: GuardTables,
    /// Return flow guard.
    pub return_flow_guard: ReturnFlowGuard,
    /// What else the loader reads.
    pub metadata: LoadMetadata,
    /// Functions of later guards.
    pub guard_functions: GuardFunctions,
}

/// The bytes of a load configuration, and which of the two layouts they have.
#[derive(Clone, Copy)]
struct Structure<'a> {
    is_64: bool,
    bytes: &'a [u8],
}

impl Structure<'_> {
    /// A field of 2 bytes, by its offset in PE32 and its offset in PE32+.
    #[tactic(auto, unfolding(crate::specs::LoadConfig::number))]
    fn u16_at(&self, offset_32: usize, offset_64: usize) -> Option<u16>
        ensures { result ≡ number (structure_view self.now) offset_32 offset_64 2 }
    {
        u16_at(self.bytes, if self.is_64 { offset_64 } else { offset_32 }).ok()
    }

    /// A field of 4 bytes, by the same two offsets.
    #[tactic(auto, unfolding(crate::specs::LoadConfig::number))]
    fn u32_at(&self, offset_32: usize, offset_64: usize) -> Option<u32>
        ensures { result ≡ number (structure_view self.now) offset_32 offset_64 4 }
    {
        u32_at(self.bytes, if self.is_64 { offset_64 } else { offset_32 }).ok()
    }

    /// A field as wide as a virtual address, by the same two offsets.
    #[tactic(auto, unfolding(crate::specs::LoadConfig::wide))]
    fn wide_at(&self, offset_32: usize, offset_64: usize) -> Option<u64>
        ensures { result ≡ wide (structure_view self.now) offset_32 offset_64 }
    {
        if self.is_64 {
            return u64_at(self.bytes, offset_64).ok();
        }
        match u32_at(self.bytes, offset_32) {
            Ok(number) => Some(u64::from(number)),
            Err(_) => None,
        }
    }
}

impl ProcessSettings {
    #[tactic(auto, unfolding(crate::specs::LoadConfig::process_settings))]
    fn of(structure: &Structure<'_>) -> ProcessSettings
        ensures { result ≡ process_settings (structure_view structure.now) }
    {
        ProcessSettings {
            global_flags_clear: structure.u32_at(12, 12),
            global_flags_set: structure.u32_at(16, 16),
            critical_section_default_timeout: structure.u32_at(20, 20),
            de_commit_free_block_threshold: structure.wide_at(24, 24),
            de_commit_total_free_threshold: structure.wide_at(28, 32),
            lock_prefix_table: structure.wide_at(32, 40),
            maximum_allocation_size: structure.wide_at(36, 48),
            virtual_memory_threshold: structure.wide_at(40, 56),
            process_affinity_mask: structure.wide_at(48, 64),
            process_heap_flags: structure.u32_at(44, 72),
            csd_version: structure.u16_at(52, 76),
            edit_list: structure.wide_at(56, 80),
        }
    }
}

impl CodeIntegrity {
    #[tactic(auto, unfolding(crate::specs::LoadConfig::code_integrity))]
    fn of(structure: &Structure<'_>) -> CodeIntegrity
        ensures { result ≡ code_integrity (structure_view structure.now) }
    {
        CodeIntegrity {
            flags: structure.u16_at(92, 148),
            catalog: structure.u16_at(94, 150),
            catalog_offset: structure.u32_at(96, 152),
            reserved: structure.u32_at(100, 156),
        }
    }
}

impl GuardTables {
    #[tactic(auto, unfolding(crate::specs::LoadConfig::guard_tables))]
    fn of(structure: &Structure<'_>) -> GuardTables
        ensures { result ≡ guard_tables (structure_view structure.now) }
    {
        GuardTables {
            address_taken_iat_entry_table: structure.wide_at(104, 160),
            address_taken_iat_entry_count: structure.wide_at(108, 168),
            long_jump_target_table: structure.wide_at(112, 176),
            long_jump_target_count: structure.wide_at(116, 184),
            eh_continuation_table: structure.wide_at(164, 264),
            eh_continuation_count: structure.wide_at(168, 272),
        }
    }
}

impl ReturnFlowGuard {
    #[tactic(auto, unfolding(crate::specs::LoadConfig::return_flow_guard))]
    fn of(structure: &Structure<'_>) -> ReturnFlowGuard
        ensures { result ≡ return_flow_guard (structure_view structure.now) }
    {
        ReturnFlowGuard {
            failure_routine: structure.wide_at(128, 208),
            failure_routine_function_pointer: structure.wide_at(132, 216),
            verify_stack_pointer_function_pointer: structure.wide_at(144, 232),
        }
    }
}

impl LoadMetadata {
    #[tactic(auto, unfolding(crate::specs::LoadConfig::load_metadata))]
    fn of(structure: &Structure<'_>) -> LoadMetadata
        ensures { result ≡ load_metadata (structure_view structure.now) }
    {
        LoadMetadata {
            dynamic_value_reloc_table: structure.wide_at(120, 192),
            dynamic_value_reloc_table_offset: structure.u32_at(136, 224),
            dynamic_value_reloc_table_section: structure.u16_at(140, 228),
            chpe_metadata_pointer: structure.wide_at(124, 200),
            hot_patch_table_offset: structure.u32_at(148, 240),
            enclave_configuration_pointer: structure.wide_at(156, 248),
            volatile_metadata_pointer: structure.wide_at(160, 256),
        }
    }
}

impl GuardFunctions {
    #[tactic(auto, unfolding(crate::specs::LoadConfig::guard_functions))]
    fn of(structure: &Structure<'_>) -> GuardFunctions
        ensures { result ≡ guard_functions (structure_view structure.now) }
    {
        GuardFunctions {
            xfg_check_function_pointer: structure.wide_at(172, 280),
            xfg_dispatch_function_pointer: structure.wide_at(176, 288),
            xfg_table_dispatch_function_pointer: structure.wide_at(180, 296),
            cast_guard_os_determined_failure_mode: structure.wide_at(184, 304),
            guard_memcpy_function_pointer: structure.wide_at(188, 312),
        }
    }
}

impl LoadConfig {
    /// The load configuration of a structure that says that it has `size` bytes.
    #[tactic(auto, unfolding(crate::specs::LoadConfig::config_of))]
    fn of(size: u32, structure: &Structure<'_>) -> LoadConfig
        ensures { result ≡ config_of size (structure_view structure.now) }
    {
        LoadConfig {
            size,
            time_date_stamp: structure.u32_at(4, 4),
            major_version: structure.u16_at(8, 8),
            minor_version: structure.u16_at(10, 10),
            process: ProcessSettings::of(structure),
            dependent_load_flags: structure.u16_at(54, 78),
            security_cookie: structure.wide_at(60, 88),
            se_handler_table: structure.wide_at(64, 96),
            se_handler_count: structure.wide_at(68, 104),
            guard_cf_check_function_pointer: structure.wide_at(72, 112),
            guard_cf_dispatch_function_pointer: structure.wide_at(76, 120),
            guard_cf_function_table: structure.wide_at(80, 128),
            guard_cf_function_count: structure.wide_at(84, 136),
            guard_flags: structure.u32_at(88, 144),
            code_integrity: CodeIntegrity::of(structure),
            guard_tables: GuardTables::of(structure),
            return_flow_guard: ReturnFlowGuard::of(structure),
            metadata: LoadMetadata::of(structure),
            guard_functions: GuardFunctions::of(structure),
        }
    }

    /// The load configuration at the RVA of `directory`, as many bytes as it says itself, or fewer where the file ends. Errors,
    /// in order: `Image` with `Unmapped`; `Image` with `Short` if its first 4 bytes are not there.
    #[tactic(auto, unfolding(crate::specs::LoadConfig::load_config))]
    pub fn parse(image: &ImageBytes<'_>, directory: DataDirectory) -> Result<LoadConfig>
        ensures { DirectoryReturns (λ l. l) result (load_config (image_view image.now) directory) }
    {
        let offset = image.record_at(directory.virtual_address, 4)?;
        let size = read_u32(image.bytes, offset);
        let rest = &image.bytes[offset..];
        let structure = Structure {
            is_64: image.is_64,
            bytes: &rest[..rest.len().min(size as usize)],
        };
        Ok(LoadConfig::of(size, &structure))
    }
}
