//! The load configuration: what guards an image against attacks, as the security cookie, the safe exception handlers of x86
//! and the functions that may be called indirectly. Versions of Windows have added fields at the end of its structure, so it
//! says how many bytes it has, and the fields after these, or past the end of the image, are absent.
//! https://learn.microsoft.com/windows/win32/debug/pe-format#the-load-configuration-structure-image-only

ghost use Rattle.std.specs.Prelude.{◌≡◌};
ghost use Rattle.pe_directories.specs.DirectoryRefusals.{directory_answer};
ghost use Rattle.calls_base.specs.Ranges.{one_if_some, or_zero};
ghost use Rattle.calls_directories.specs.LoadConfigs.{config_reported, later_fields, load_config_at, numbered_field, numbered_field_at, process_fields};
ghost use Rattle.calls_base.specs.Views.{directory_sections};

use calls_base::directories::{Result, image_at};
use calls_base::image::{LOAD_CONFIG_TABLE, directory, is_absent};
use calls_base::view::View;
use pe_directories::LoadConfig as Structure;

/// The load configuration (`IMAGE_LOAD_CONFIG_DIRECTORY32`, `IMAGE_LOAD_CONFIG_DIRECTORY64`), up to the guard flags. A field
/// that the structure is too short for, or the image, is 0, and the field `has_` of its name is 0 too. Addresses are virtual
/// addresses.
#[repr(C)]
#[derive(Clone, Copy)]
pub struct LoadConfig {
    /// Where the security cookie is.
    pub security_cookie: u64,
    /// Where the sorted table of the RVAs of exception handlers is, 4 bytes each, on x86.
    pub se_handler_table: u64,
    /// The number of exception handlers in the table.
    pub se_handler_count: u64,
    /// Where the pointer to the function is that checks the target of an indirect call.
    pub guard_cf_check_function_pointer: u64,
    /// Where the pointer to the function is that checks the target and calls it.
    pub guard_cf_dispatch_function_pointer: u64,
    /// Where the sorted table of the functions is that may be called indirectly: the RVA of each, 4 bytes, and as many more
    /// bytes as bits 28 to 31 of the guard flags say.
    pub guard_cf_function_table: u64,
    /// The number of functions in the table.
    pub guard_cf_function_count: u64,
    /// The size of the structure in bytes, as it says.
    pub size: u32,
    /// When it was made, in seconds since 1970.
    pub time_date_stamp: u32,
    /// Flags, `IMAGE_GUARD_*`.
    pub guard_flags: u32,
    /// The major part of a version.
    pub major_version: u16,
    /// The minor part of a version.
    pub minor_version: u16,
    /// Where DLLs that the image imports are looked for: flags of `LoadLibraryEx`.
    pub dependent_load_flags: u16,
    /// 0.
    pub spare: u16,
    /// 1 where the structure has the field of this name, else 0, as all that follow.
    pub has_time_date_stamp: u8,
    pub has_major_version: u8,
    pub has_minor_version: u8,
    pub has_dependent_load_flags: u8,
    pub has_security_cookie: u8,
    pub has_se_handler_table: u8,
    pub has_se_handler_count: u8,
    pub has_guard_cf_check_function_pointer: u8,
    pub has_guard_cf_dispatch_function_pointer: u8,
    pub has_guard_cf_function_table: u8,
    pub has_guard_cf_function_count: u8,
    pub has_guard_flags: u8,
}

/// 1 for a field that is there, else 0.
fn flag<T: Copy>(field: Option<T>) -> u8
    ensures { result ≡ one_if_some field }
{
    match field {
        Some(_) => 1,
        None => 0,
    }
}

/// A field, 0 where it is not there.
fn u16_or_0(field: Option<u16>) -> u16
    ensures { result ≡ or_zero field }
{
    field.unwrap_or(0)
}

/// The same of 4 bytes.
fn u32_or_0(field: Option<u32>) -> u32
    ensures { result ≡ or_zero field }
{
    field.unwrap_or(0)
}

/// The same of 8 bytes.
fn u64_or_0(field: Option<u64>) -> u64
    ensures { result ≡ or_zero field }
{
    field.unwrap_or(0)
}

/// A load configuration as callers get it.
#[tactic(auto, unfolding(crate::specs::LoadConfigs::config_reported))]
fn config_reported(config: &Structure) -> LoadConfig
    ensures { result ≡ config_reported config.now }
{
    LoadConfig {
        security_cookie: u64_or_0(config.security_cookie),
        se_handler_table: u64_or_0(config.se_handler_table),
        se_handler_count: u64_or_0(config.se_handler_count),
        guard_cf_check_function_pointer: u64_or_0(config.guard_cf_check_function_pointer),
        guard_cf_dispatch_function_pointer: u64_or_0(config.guard_cf_dispatch_function_pointer),
        guard_cf_function_table: u64_or_0(config.guard_cf_function_table),
        guard_cf_function_count: u64_or_0(config.guard_cf_function_count),
        size: config.size,
        time_date_stamp: u32_or_0(config.time_date_stamp),
        guard_flags: u32_or_0(config.guard_flags),
        major_version: u16_or_0(config.major_version),
        minor_version: u16_or_0(config.minor_version),
        dependent_load_flags: u16_or_0(config.dependent_load_flags),
        spare: 0,
        has_time_date_stamp: flag(config.time_date_stamp),
        has_major_version: flag(config.major_version),
        has_minor_version: flag(config.minor_version),
        has_dependent_load_flags: flag(config.dependent_load_flags),
        has_security_cookie: flag(config.security_cookie),
        has_se_handler_table: flag(config.se_handler_table),
        has_se_handler_count: flag(config.se_handler_count),
        has_guard_cf_check_function_pointer: flag(config.guard_cf_check_function_pointer),
        has_guard_cf_dispatch_function_pointer: flag(config.guard_cf_dispatch_function_pointer),
        has_guard_cf_function_table: flag(config.guard_cf_function_table),
        has_guard_cf_function_count: flag(config.guard_cf_function_count),
        has_guard_flags: flag(config.guard_flags),
    }
}

/// The load configuration, if its directory is not absent.
pub fn load_config_at(view: &View) -> Result<Option<LoadConfig>>
    ensures { directory_answer (λ c. c) result
        ≡ load_config_at view.now.bytes.now view.now.image.now (directory_sections view.now 10) }
{
    let directory = directory(view.image, LOAD_CONFIG_TABLE);
    if is_absent(directory) {
        return Ok(None);
    }
    let config = Structure::parse(&image_at(view, directory), directory)?;
    Ok(Some(config_reported(&config)))
}

/// A field of 2 bytes as a number of 8.
fn u16_as_u64(field: Option<u16>) -> Option<u64>
    ensures { result ≡ field }
{
    match field {
        Some(number) => Some(u64::from(number)),
        None => None,
    }
}

/// The same of 4 bytes.
fn u32_as_u64(field: Option<u32>) -> Option<u64>
    ensures { result ≡ field }
{
    match field {
        Some(number) => Some(u64::from(number)),
        None => None,
    }
}

/// The fields for a process, in the order of winnt.h.
#[tactic(auto, unfolding(crate::specs::LoadConfigs::process_fields))]
fn process_fields(config: &Structure) -> [Option<u64>; 12]
    ensures { result ≡ process_fields config.now }
{
    [
        u32_as_u64(config.process.global_flags_clear),
        u32_as_u64(config.process.global_flags_set),
        u32_as_u64(config.process.critical_section_default_timeout),
        config.process.de_commit_free_block_threshold,
        config.process.de_commit_total_free_threshold,
        config.process.lock_prefix_table,
        config.process.maximum_allocation_size,
        config.process.virtual_memory_threshold,
        config.process.process_affinity_mask,
        u32_as_u64(config.process.process_heap_flags),
        u16_as_u64(config.process.csd_version),
        config.process.edit_list,
    ]
}

/// The fields that follow the guard flags, in the same order.
#[tactic(auto, unfolding(crate::specs::LoadConfigs::later_fields))]
fn later_fields(config: &Structure) -> [Option<u64>; 25]
    ensures { result ≡ later_fields config.now }
{
    [
        u16_as_u64(config.code_integrity.flags),
        u16_as_u64(config.code_integrity.catalog),
        u32_as_u64(config.code_integrity.catalog_offset),
        u32_as_u64(config.code_integrity.reserved),
        config.guard_tables.address_taken_iat_entry_table,
        config.guard_tables.address_taken_iat_entry_count,
        config.guard_tables.long_jump_target_table,
        config.guard_tables.long_jump_target_count,
        config.metadata.dynamic_value_reloc_table,
        config.metadata.chpe_metadata_pointer,
        config.return_flow_guard.failure_routine,
        config.return_flow_guard.failure_routine_function_pointer,
        u32_as_u64(config.metadata.dynamic_value_reloc_table_offset),
        u16_as_u64(config.metadata.dynamic_value_reloc_table_section),
        config
            .return_flow_guard
            .verify_stack_pointer_function_pointer,
        u32_as_u64(config.metadata.hot_patch_table_offset),
        config.metadata.enclave_configuration_pointer,
        config.metadata.volatile_metadata_pointer,
        config.guard_tables.eh_continuation_table,
        config.guard_tables.eh_continuation_count,
        config.guard_functions.xfg_check_function_pointer,
        config.guard_functions.xfg_dispatch_function_pointer,
        config.guard_functions.xfg_table_dispatch_function_pointer,
        config.guard_functions.cast_guard_os_determined_failure_mode,
        config.guard_functions.guard_memcpy_function_pointer,
    ]
}

/// The field with a number: 0 to 11 for a process, then those that follow the guard flags.
#[tactic(auto, unfolding(crate::specs::LoadConfigs::numbered_field))]
fn numbered_field(config: &Structure, number: u32) -> Option<u64>
    ensures { result ≡ numbered_field number config.now }
{
    if number < 12 {
        return process_fields(config)[number as usize];
    }
    let fields = later_fields(config);
    match fields.get(number as usize - 12) {
        Some(field) => *field,
        None => None,
    }
}

pub fn numbered_field_at(view: &View, number: u32) -> Result<Option<u64>>
    ensures { directory_answer (λ n. n) result
        ≡ numbered_field_at number view.now.bytes.now view.now.image.now
        (directory_sections view.now 10) }
{
    let directory = directory(view.image, LOAD_CONFIG_TABLE);
    if is_absent(directory) {
        return Ok(None);
    }
    let config = Structure::parse(&image_at(view, directory), directory)?;
    Ok(numbered_field(&config, number))
}
