//! What a dump says of the system, stream 7 (`MINIDUMP_SYSTEM_INFO`, 56 bytes), and of the process, stream 15
//! (`MINIDUMP_MISC_INFO`, 24 bytes, or more in later versions, which add fields at the end). The system says of which machine the
//! contexts of a dump are.
//!
//! <https://learn.microsoft.com/windows/win32/api/minidumpapiset/ns-minidumpapiset-minidump_system_info>
//! <https://learn.microsoft.com/windows/win32/api/minidumpapiset/ns-minidumpapiset-minidump_misc_info_2>

ghost use Rattle.std.specs.Prelude.{◌≡◌, ◌/◌, ◌%◌, ◌<◌, ◌≤◌, ◌==◌, length};
ghost use Rattle.pe_minidump.specs.Dumps.{dump_view};
ghost use Rattle.pe_minidump.specs.Records.{system_info};
ghost use Rattle.pe_minidump.specs.Refusals.{DumpReturns};
ghost use Rattle.pe_minidump.specs.Streams.{at_start, misc, misc_of, power_of, system, times_of};

use crate::dump::Dump;
use crate::error::Result;
use crate::location::require_fields;
use crate::stream_type::{MISC_INFO_STREAM, SYSTEM_INFO_STREAM};
use pe_core::{read_u8, read_u16, read_u32};

/// The size of a description of the system in bytes.
const SIZE_OF_SYSTEM_INFO: usize = 56;

/// The size of the first description of a process in bytes.
const SIZE_OF_MISC_INFO: usize = 24;

/// The size of the one with the speed of the processor.
const SIZE_OF_MISC_INFO_2: usize = 44;

/// The system (`MINIDUMP_SYSTEM_INFO`), 56 bytes.
#[repr(C)]
#[derive(Clone, Copy)]
pub struct SystemInfo {
    /// `PROCESSOR_ARCHITECTURE_*`: 9 is x64, 12 ARM64, 0 x86.
    pub processor_architecture: u16,
    /// The family of the processor.
    pub processor_level: u16,
    /// Its model and stepping.
    pub processor_revision: u16,
    /// The number of processors.
    pub number_of_processors: u8,
    /// `VER_NT_*`: 1 is a workstation, 2 a domain controller, 3 a server.
    pub product_type: u8,
    /// The version of the system, major part.
    pub major_version: u32,
    /// The version of the system, minor part.
    pub minor_version: u32,
    /// The build of the system.
    pub build_number: u32,
    /// `VER_PLATFORM_*`: 2 is Windows NT.
    pub platform_id: u32,
    /// The offset of the name of the service pack in the file, a string.
    pub csd_version_rva: u32,
    /// `VER_SUITE_*`.
    pub suite_mask: u16,
}

/// How long a process ran.
#[repr(C)]
#[derive(Clone, Copy, Debug, PartialEq)]
pub struct ProcessTimes {
    /// When it was made, in seconds since 1970.
    pub process_create_time: u32,
    /// How long it ran outside of the kernel, in seconds.
    pub process_user_time: u32,
    /// How long it ran in the kernel, in seconds.
    pub process_kernel_time: u32,
}

/// The speed of the processor.
#[repr(C)]
#[derive(Clone, Copy, Debug, PartialEq)]
pub struct ProcessorPower {
    /// The most that it may have, in MHz.
    pub processor_max_mhz: u32,
    /// What it had, in MHz.
    pub processor_current_mhz: u32,
    /// The limit that was set, in MHz.
    pub processor_mhz_limit: u32,
    /// The deepest idle state that it may have.
    pub processor_max_idle_state: u32,
    /// The idle state that it had.
    pub processor_current_idle_state: u32,
}

/// What is known of the process (`MINIDUMP_MISC_INFO`, `MINIDUMP_MISC_INFO_2`).
#[derive(Clone, Copy)]
pub struct MiscInfo {
    /// The size in bytes that the writer says it has. Later versions have fields after those that are read here.
    pub size_of_info: u32,
    /// Which parts are there, `MINIDUMP_MISC1_*`.
    pub flags1: u32,
    /// The ID of the process, with `MINIDUMP_MISC1_PROCESS_ID`.
    pub process_id: Option<u32>,
    /// How long it ran, with `MINIDUMP_MISC1_PROCESS_TIMES`.
    pub process_times: Option<ProcessTimes>,
    /// The speed of the processor, with `MINIDUMP_MISC1_PROCESSOR_POWER_INFO` in a stream of at least 44 bytes, whatever
    /// `size_of_info` is.
    pub processor_power: Option<ProcessorPower>,
}

/// The system at the start of a stream. Error: `Short` if it has fewer than 56 bytes.
#[tactic(auto, unfolding(crate::specs::Records::system_info))]
pub fn system_of(stream: &[u8]) -> Result<SystemInfo>
    ensures { DumpReturns (λ s. s) result (at_start 56 (system_info stream.now 0) stream.now) }
{
    require_fields(stream, SIZE_OF_SYSTEM_INFO)?;
    Ok(SystemInfo {
        processor_architecture: read_u16(stream, 0),
        processor_level: read_u16(stream, 2),
        processor_revision: read_u16(stream, 4),
        number_of_processors: read_u8(stream, 6),
        product_type: read_u8(stream, 7),
        major_version: read_u32(stream, 8),
        minor_version: read_u32(stream, 12),
        build_number: read_u32(stream, 16),
        platform_id: read_u32(stream, 20),
        csd_version_rva: read_u32(stream, 24),
        suite_mask: read_u16(stream, 28),
    })
}

/// Whether a bit of the flags is set, by its value.
fn is_set(flags: u32, bit: u32) -> bool
    requires { 0 < bit }
    ensures { result ≡ (flags / bit % 2 == 1) }
{
    flags / bit % 2 == 1
}

/// How long the process ran, by a stream that is known to say it.
fn times_of(stream: &[u8]) -> ProcessTimes
    requires { 24 ≤ length stream.now }
    ensures { result ≡ times_of stream.now }
{
    ProcessTimes {
        process_create_time: read_u32(stream, 12),
        process_user_time: read_u32(stream, 16),
        process_kernel_time: read_u32(stream, 20),
    }
}

/// The speed of the processor, by a stream that is known to say it.
fn power_of(stream: &[u8]) -> ProcessorPower
    requires { 44 ≤ length stream.now }
    ensures { result ≡ power_of stream.now }
{
    ProcessorPower {
        processor_max_mhz: read_u32(stream, 24),
        processor_current_mhz: read_u32(stream, 28),
        processor_mhz_limit: read_u32(stream, 32),
        processor_max_idle_state: read_u32(stream, 36),
        processor_current_idle_state: read_u32(stream, 40),
    }
}

/// What is known of the process, by the start of a stream. Error: `Short` if it has fewer than 24 bytes.
#[tactic(auto, unfolding(crate::specs::Streams::misc_of))]
pub fn misc_of(stream: &[u8]) -> Result<MiscInfo>
    ensures { DumpReturns (λ m. m) result (at_start 24 (misc_of stream.now) stream.now) }
{
    require_fields(stream, SIZE_OF_MISC_INFO)?;
    let flags1 = read_u32(stream, 4);
    let has_power = is_set(flags1, 4) && stream.len() >= SIZE_OF_MISC_INFO_2;
    Ok(MiscInfo {
        size_of_info: read_u32(stream, 0),
        flags1,
        process_id: if is_set(flags1, 1) {
            Some(read_u32(stream, 8))
        } else {
            None
        },
        process_times: if is_set(flags1, 2) {
            Some(times_of(stream))
        } else {
            None
        },
        processor_power: if has_power {
            Some(power_of(stream))
        } else {
            None
        },
    })
}

impl<'a> Dump<'a> {
    /// The system (`SystemInfoStream`); `None` without such a stream. Errors, in order: `Location`; `Short` if the stream
    /// has fewer than 56 bytes.
    pub fn system_info(&self) -> Result<Option<SystemInfo>>
        ensures { DumpReturns (λ s. s) result (system (dump_view self.now)) }
    {
        match self.stream(SYSTEM_INFO_STREAM)? {
            Some(stream) => Ok(Some(system_of(stream)?)),
            None => Ok(None),
        }
    }

    /// What is known of the process (`MiscInfoStream`); `None` without such a stream. Errors, in order: `Location`; `Short`
    /// if the stream has fewer than 24 bytes.
    pub fn misc_info(&self) -> Result<Option<MiscInfo>>
        ensures { DumpReturns (λ m. m) result (misc (dump_view self.now)) }
    {
        match self.stream(MISC_INFO_STREAM)? {
            Some(stream) => Ok(Some(misc_of(stream)?)),
            None => Ok(None),
        }
    }
}
