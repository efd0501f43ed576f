//! The constants of the debug directory and its records, by winnt.h's names where it has them. Types of records:
//! [PE format](https://learn.microsoft.com/windows/win32/debug/pe-format).

/// The size of a debug entry in bytes.
pub const IMAGE_DEBUG_DIRECTORY_SIZE: usize = 28;

/// The size of a POGO record's signature in bytes.
pub const POGO_SIGNATURE_SIZE: usize = 4;

/// An unknown record, which tools ignore.
pub const IMAGE_DEBUG_TYPE_UNKNOWN: u32 = 0;

/// COFF line numbers, symbols and strings.
pub const IMAGE_DEBUG_TYPE_COFF: u32 = 1;

/// A CodeView record, such as PDB 7.0 or PDB 2.0: which PDB file has the symbols.
pub const IMAGE_DEBUG_TYPE_CODEVIEW: u32 = 2;

/// Frame pointer omission: the frames of functions without a frame pointer.
pub const IMAGE_DEBUG_TYPE_FPO: u32 = 3;

/// The location of a DBG file, an older file of symbols.
pub const IMAGE_DEBUG_TYPE_MISC: u32 = 4;

/// A copy of the exception directory.
pub const IMAGE_DEBUG_TYPE_EXCEPTION: u32 = 5;

/// Addresses that a linker changed as it rearranged the image.
pub const IMAGE_DEBUG_TYPE_FIXUP: u32 = 6;

/// A map from RVAs of a rearranged image to RVAs of its source image.
pub const IMAGE_DEBUG_TYPE_OMAP_TO_SRC: u32 = 7;

/// A map from RVAs of the source image to RVAs of the rearranged image.
pub const IMAGE_DEBUG_TYPE_OMAP_FROM_SRC: u32 = 8;

/// Symbols of Borland's compilers.
pub const IMAGE_DEBUG_TYPE_BORLAND: u32 = 9;

/// Reserved.
pub const IMAGE_DEBUG_TYPE_RESERVED10: u32 = 10;

/// Another name of the reserved type 10.
pub const IMAGE_DEBUG_TYPE_BBT: u32 = 10;

/// A class identifier.
pub const IMAGE_DEBUG_TYPE_CLSID: u32 = 11;

/// How many functions were compiled with which features of Visual C++.
pub const IMAGE_DEBUG_TYPE_VC_FEATURE: u32 = 12;

/// The parts of the image that profile-guided optimization arranged.
pub const IMAGE_DEBUG_TYPE_POGO: u32 = 13;

/// Incremental link-time code generation.
pub const IMAGE_DEBUG_TYPE_ILTCG: u32 = 14;

/// Bounds checks by the processor (Intel MPX).
pub const IMAGE_DEBUG_TYPE_MPX: u32 = 15;

/// The identity of a reproducible build.
pub const IMAGE_DEBUG_TYPE_REPRO: u32 = 16;

/// A portable PDB of .NET, embedded in the image.
pub const IMAGE_DEBUG_TYPE_EMBEDDEDPORTABLEPDB: u32 = 17;

/// Sampled profiles.
pub const IMAGE_DEBUG_TYPE_SPGO: u32 = 18;

/// A checksum of the PDB file.
pub const IMAGE_DEBUG_TYPE_PDBCHECKSUM: u32 = 19;

/// Extended DLL characteristics.
pub const IMAGE_DEBUG_TYPE_EX_DLLCHARACTERISTICS: u32 = 20;

/// A map for profilers of .NET (perf map).
pub const IMAGE_DEBUG_TYPE_PERFMAP: u32 = 21;

/// `RSDS`: PDB 7.0.
pub const CODEVIEW_PDB70_MAGIC: u32 = 0x53445352;

/// `NB10`: PDB 2.0.
pub const CODEVIEW_PDB20_MAGIC: u32 = 0x3031424E;

/// `NB11`: CodeView 5.0.
pub const CODEVIEW_CV50_MAGIC: u32 = 0x3131424E;

/// `NB09`: CodeView 4.10.
pub const CODEVIEW_CV41_MAGIC: u32 = 0x3930424E;

/// `LTCG`: code was generated at link time.
pub const IMAGE_DEBUG_POGO_SIGNATURE_LTCG: u32 = 0x4C544347;

/// `PGU`: a profile was updated.
pub const IMAGE_DEBUG_POGO_SIGNATURE_PGU: u32 = 0x50475500;

/// The image is compatible with shadow stacks (CET).
pub const IMAGE_DLLCHARACTERISTICS_EX_CET_COMPAT: u32 = 1;

/// Shadow stacks are enforced in strict mode.
pub const IMAGE_DLLCHARACTERISTICS_EX_CET_COMPAT_STRICT_MODE: u32 = 2;

/// New instruction pointers of a thread's context are validated in relaxed mode.
pub const IMAGE_DLLCHARACTERISTICS_EX_CET_SET_CONTEXT_IP_VALIDATION_RELAXED_MODE: u32 = 4;

/// The CET APIs that declare dynamic code may be called by the process itself alone.
pub const IMAGE_DLLCHARACTERISTICS_EX_CET_DYNAMIC_APIS_ALLOW_IN_PROC_ONLY: u32 = 8;

/// Reserved.
pub const IMAGE_DLLCHARACTERISTICS_EX_CET_RESERVED_1: u32 = 0x10;

/// Reserved.
pub const IMAGE_DLLCHARACTERISTICS_EX_CET_RESERVED_2: u32 = 0x20;

/// The image is compatible with forward-edge control-flow integrity.
pub const IMAGE_DLLCHARACTERISTICS_EX_FORWARD_CFI_COMPAT: u32 = 0x40;

/// The image can be patched while it runs (hot patching).
pub const IMAGE_DLLCHARACTERISTICS_EX_HOTPATCH_COMPATIBLE: u32 = 0x80;
