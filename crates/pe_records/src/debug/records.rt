//! The debug records of fixed size, VC feature and extended DLL characteristics, and the Repro record of a
//! reproducible build. A caller gets them by `DebugData`, or parses one of an entry.

ghost use Rattle.std.specs.Prelude.{◌≡◌, ◌+◌, ◌≤◌, length};
ghost use Rattle.pe_core.specs.Options.{default_options};
ghost use Rattle.pe_core.specs.Refusals.{Returns, ReturnsAs};
ghost use Rattle.pe_records.specs.DebugRecords.{features_at, features_of, characteristics_of, repro_view, repro_of, repro_record};

use crate::debug::ImageDebugDirectory;
use pe_core::{ParseOptions, Reason, Result, data_at, read_u32, require_bytes, u32_at};

/// A VC feature record (`IMAGE_DEBUG_TYPE_VC_FEATURE`), 20 bytes: how many functions of an image were compiled with
/// which features of Visual C++.
#[repr(C)]
#[derive(Clone, Copy, Debug, Default, PartialEq)]
pub struct VCFeatureInfo {
    /// Compiled by a compiler before Visual C++ 11.
    pub pre_vc_plusplus_count: u32,
    /// Compiled from C and C++.
    pub c_and_cplusplus_count: u32,
    /// Compiled with checks of the stack (`/GS`).
    pub guard_stack_count: u32,
    /// Compiled with the checks of `/sdl`.
    pub sdl_count: u32,
    /// Compiled with guards of control flow.
    pub guard_count: u32,
}

impl VCFeatureInfo {
    /// Reads the counts at an offset where their 20 bytes are known to be.
    #[tactic(auto, unfolding(crate::specs::DebugRecords::features_at))]
    fn at(bytes: &[u8], offset: usize) -> VCFeatureInfo
        requires { offset + 20 ≤ length bytes.now }
        ensures { result ≡ features_at bytes.now offset }
    {
        VCFeatureInfo {
            pre_vc_plusplus_count: read_u32(bytes, offset),
            c_and_cplusplus_count: read_u32(bytes, offset + 4),
            guard_stack_count: read_u32(bytes, offset + 8),
            sdl_count: read_u32(bytes, offset + 12),
            guard_count: read_u32(bytes, offset + 16),
        }
    }

    /// The counts of the entry, with the default options. Errors: those of `parse_with_opts`.
    pub fn parse(bytes: &[u8], idd: &ImageDebugDirectory) -> Result<VCFeatureInfo>
        ensures { Returns result (features_of default_options bytes.now idd.now) }
    {
        VCFeatureInfo::parse_with_opts(bytes, idd, &ParseOptions::default())
    }

    /// The counts of the entry, whatever its size says. `bytes` is the whole file. Errors: `Short` if the 20 bytes are
    /// not in the file.
    pub fn parse_with_opts(
        bytes: &[u8],
        idd: &ImageDebugDirectory,
        opts: &ParseOptions,
    ) -> Result<VCFeatureInfo>
        ensures { Returns result (features_of opts.now bytes.now idd.now) }
    {
        let offset = idd.record_offset(opts) as usize;
        require_bytes(bytes, offset, 20)?;
        Ok(VCFeatureInfo::at(bytes, offset))
    }
}

/// Extended DLL characteristics (`IMAGE_DEBUG_TYPE_EX_DLLCHARACTERISTICS`), 4 bytes: more flags than the optional
/// header has.
#[derive(Clone, Copy, Debug, Default, PartialEq)]
pub struct ExDllCharacteristicsInfo {
    /// A combination of the flags `IMAGE_DLLCHARACTERISTICS_EX_*`.
    pub characteristics_ex: u32,
}

impl ExDllCharacteristicsInfo {
    /// The characteristics of the entry, with the default options. Errors: those of `parse_with_opts`.
    pub fn parse(bytes: &[u8], idd: &ImageDebugDirectory) -> Result<ExDllCharacteristicsInfo>
        ensures { Returns result (characteristics_of default_options bytes.now idd.now) }
    {
        ExDllCharacteristicsInfo::parse_with_opts(bytes, idd, &ParseOptions::default())
    }

    /// The characteristics of the entry, whatever its size says. `bytes` is the whole file. Errors: `Short` if the 4
    /// bytes are not in the file.
    pub fn parse_with_opts(
        bytes: &[u8],
        idd: &ImageDebugDirectory,
        opts: &ParseOptions,
    ) -> Result<ExDllCharacteristicsInfo>
        ensures { Returns result (characteristics_of opts.now bytes.now idd.now) }
    {
        let characteristics_ex = u32_at(bytes, idd.record_offset(opts) as usize)?;
        Ok(ExDllCharacteristicsInfo { characteristics_ex })
    }
}

/// A Repro record (`IMAGE_DEBUG_TYPE_REPRO`): the identity of a reproducible build.
#[derive(Clone, Copy, Debug, PartialEq)]
pub enum ReproInfo<'a> {
    /// The time stamp of the entry, which is a hash here.
    TimeDateStamp(u32),
    /// A hash of its own, in the record.
    Buffer {
        /// The size of the hash in bytes.
        length: u32,
        /// The hash.
        buffer: &'a [u8],
    },
}

impl<'a> ReproInfo<'a> {
    /// The Repro record of the entry, at a file offset.
    #[tactic(auto, unfolding(crate::specs::DebugRecords::repro_record))]
    fn at(bytes: &'a [u8], offset: usize, idd: &ImageDebugDirectory) -> Result<Self>
        ensures { ReturnsAs repro_view result (repro_record bytes.entry.now offset idd.now) }
    {
        if idd.size_of_data == 0 {
            return Ok(ReproInfo::TimeDateStamp(idd.time_date_stamp));
        }
        let length = u32_at(bytes, offset)?;
        let refusal = Reason::DebugData(length);
        let buffer = data_at(bytes, offset + 4, length as usize, refusal)?;
        Ok(ReproInfo::Buffer { length, buffer })
    }

    /// The Repro record of the entry, with the default options. Errors: those of `parse_with_opts`.
    pub fn parse(bytes: &'a [u8], idd: &ImageDebugDirectory) -> Result<Self>
        ensures { ReturnsAs repro_view result (repro_of default_options bytes.entry.now idd.now) }
    {
        ReproInfo::parse_with_opts(bytes, idd, &ParseOptions::default())
    }

    /// The Repro record of the entry: its time stamp if its size is 0, else a length of 4 bytes and that many bytes.
    /// The size is not used further. `bytes` is the whole file.
    ///
    /// Errors, in this order: `Short` if the length is not in the file; `DebugData` if the hash is not.
    pub fn parse_with_opts(
        bytes: &'a [u8],
        idd: &ImageDebugDirectory,
        opts: &ParseOptions,
    ) -> Result<Self>
        ensures { ReturnsAs repro_view result (repro_of opts.now bytes.entry.now idd.now) }
    {
        ReproInfo::at(bytes, idd.record_offset(opts) as usize, idd)
    }
}
