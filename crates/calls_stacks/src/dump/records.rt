//! What streams of a minidump say in one record: the exception, the system, the process.

ghost use Rattle.std.specs.Prelude.{◌≡◌};
ghost use Rattle.calls_stacks.specs.Dumps.{dump_answer};
ghost use Rattle.calls_stacks.specs.DumpRecords.{exception_at, misc_at, misc_reported, system_at, system_reported};
ghost use Rattle.calls_stacks.specs.DumpMemory.{fits};

use crate::dump::lists::DumpModule;
use calls_base::image::Image;
use calls_base::ranges::Range;
use pe_minidump::{
    Exception, MiscInfo, ProcessTimes, ProcessorPower, Result, SystemInfo, exception_of, located,
    misc_of, system_of,
};

/// The system (`MINIDUMP_SYSTEM_INFO`).
#[repr(C)]
#[derive(Clone, Copy)]
pub struct DumpSystem {
    /// `PROCESSOR_ARCHITECTURE_*`: 9 is x64, 12 ARM64, 0 x86.
    pub processor_architecture: u16,
    /// The family of the processor.
    pub processor_level: u16,
    /// Its model and stepping.
    pub processor_revision: u16,
    /// The number of processors.
    pub number_of_processors: u8,
    /// `VER_NT_*`: 1 is a workstation, 2 a domain controller, 3 a server.
    pub product_type: u8,
    /// The version of the system, major part.
    pub major_version: u32,
    /// The version of the system, minor part.
    pub minor_version: u32,
    /// The build of the system.
    pub build_number: u32,
    /// `VER_PLATFORM_*`: 2 is Windows NT.
    pub platform_id: u32,
    /// Where the name of the service pack stands, a string.
    pub csd_version_rva: u32,
    /// `VER_SUITE_*`.
    pub suite_mask: u16,
    /// 0.
    pub spare: u16,
}

/// What is known of the process (`MINIDUMP_MISC_INFO`). What is not there is 0.
#[repr(C)]
#[derive(Clone, Copy)]
pub struct DumpProcess {
    /// The size in bytes that the writer says the record has.
    pub size_of_info: u32,
    /// Which parts are there, `MINIDUMP_MISC1_*`.
    pub flags1: u32,
    /// The ID of the process, with bit 0 of the flags.
    pub process_id: u32,
    /// How long it ran, with bit 1 of the flags: all times are in seconds.
    pub process_times: ProcessTimes,
    /// 1 with bit 2 of the flags where the stream has 44 bytes or more. Else 0.
    pub has_processor_power: u32,
    /// The speed of the processor.
    pub processor_power: ProcessorPower,
}

pub fn exception_at(bytes: &[u8], stream: &Range) -> Result<Exception>
    ensures { dump_answer result ≡ exception_at bytes.now stream.now }
{
    exception_of(located(bytes, stream.offset, stream.length)?)
}

/// A system as callers get it.
fn system_reported(system: &SystemInfo) -> DumpSystem
    ensures { result ≡ system_reported system.now }
{
    DumpSystem {
        processor_architecture: system.processor_architecture,
        processor_level: system.processor_level,
        processor_revision: system.processor_revision,
        number_of_processors: system.number_of_processors,
        product_type: system.product_type,
        major_version: system.major_version,
        minor_version: system.minor_version,
        build_number: system.build_number,
        platform_id: system.platform_id,
        csd_version_rva: system.csd_version_rva,
        suite_mask: system.suite_mask,
        spare: 0,
    }
}

pub fn system_at(bytes: &[u8], stream: &Range) -> Result<DumpSystem>
    ensures { dump_answer result ≡ system_at bytes.now stream.now }
{
    let system = system_of(located(bytes, stream.offset, stream.length)?)?;
    Ok(system_reported(&system))
}

/// What is known of a process as callers get it.
fn misc_reported(misc: &MiscInfo) -> DumpProcess
    ensures { result ≡ misc_reported misc.now }
{
    let process_times = match misc.process_times {
        Some(times) => times,
        None => ProcessTimes {
            process_create_time: 0,
            process_user_time: 0,
            process_kernel_time: 0,
        },
    };
    let (has_processor_power, processor_power) = match misc.processor_power {
        Some(power) => (1, power),
        None => (
            0,
            ProcessorPower {
                processor_max_mhz: 0,
                processor_current_mhz: 0,
                processor_mhz_limit: 0,
                processor_max_idle_state: 0,
                processor_current_idle_state: 0,
            },
        ),
    };
    DumpProcess {
        size_of_info: misc.size_of_info,
        flags1: misc.flags1,
        process_id: misc.process_id.unwrap_or(0),
        process_times,
        has_processor_power,
        processor_power,
    }
}

pub fn misc_at(bytes: &[u8], stream: &Range) -> Result<DumpProcess>
    ensures { dump_answer result ≡ misc_at bytes.now stream.now }
{
    let misc = misc_of(located(bytes, stream.offset, stream.length)?)?;
    Ok(misc_reported(&misc))
}

/// Whether an image is that of a module, by the time stamp and the size of its image that a dump says of it, by which a symbol server
/// files images too. The name says nothing: any file may have it.
pub fn fits(image: &Image, module: &DumpModule) -> bool
    ensures { result ≡ fits image.now module.now }
{
    image.width != 0
        && image.time_date_stamp == module.time_date_stamp
        && image.size_of_image == module.size_of_image
}
