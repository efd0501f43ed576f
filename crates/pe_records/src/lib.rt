//! Attribute certificates and debug data of Windows executables.
//!
//! The certificate table holds the signatures of a file (Authenticode). The debug directory leads to records that name
//! the PDB file of an image, its build and its features. A caller lists certificates by `enumerate_certificates`, and
//! parses the debug directory by `DebugData`. Layouts:
//! [PE format](https://learn.microsoft.com/windows/win32/debug/pe-format).
//!
//! Every call is proved to return what its definition in `specs/` says, for every byte string.
#![tactic(auto)]

mod certificate_table;
mod debug;
pub mod laws;

pub use certificate_table::{
    AttributeCertificate, AttributeCertificateRevision, AttributeCertificateType,
    CertificateDirectoryTable, enumerate_certificates,
};
pub use debug::{
    CODEVIEW_CV41_MAGIC, CODEVIEW_CV50_MAGIC, CODEVIEW_PDB20_MAGIC, CODEVIEW_PDB70_MAGIC,
    CodeviewPDB20DebugInfo, CodeviewPDB70DebugInfo, DebugData, EMBEDDED_PDB_MAGIC, EmbeddedPdb,
    ExDllCharacteristicsInfo, FirstDebugEntries, IMAGE_DEBUG_DIRECTORY_SIZE,
    IMAGE_DEBUG_POGO_SIGNATURE_LTCG, IMAGE_DEBUG_POGO_SIGNATURE_PGU, IMAGE_DEBUG_TYPE_BBT,
    IMAGE_DEBUG_TYPE_BORLAND, IMAGE_DEBUG_TYPE_CLSID, IMAGE_DEBUG_TYPE_CODEVIEW,
    IMAGE_DEBUG_TYPE_COFF, IMAGE_DEBUG_TYPE_EMBEDDEDPORTABLEPDB,
    IMAGE_DEBUG_TYPE_EX_DLLCHARACTERISTICS, IMAGE_DEBUG_TYPE_EXCEPTION, IMAGE_DEBUG_TYPE_FIXUP,
    IMAGE_DEBUG_TYPE_FPO, IMAGE_DEBUG_TYPE_ILTCG, IMAGE_DEBUG_TYPE_MISC, IMAGE_DEBUG_TYPE_MPX,
    IMAGE_DEBUG_TYPE_OMAP_FROM_SRC, IMAGE_DEBUG_TYPE_OMAP_TO_SRC, IMAGE_DEBUG_TYPE_PDBCHECKSUM,
    IMAGE_DEBUG_TYPE_PERFMAP, IMAGE_DEBUG_TYPE_POGO, IMAGE_DEBUG_TYPE_REPRO,
    IMAGE_DEBUG_TYPE_RESERVED10, IMAGE_DEBUG_TYPE_SPGO, IMAGE_DEBUG_TYPE_UNKNOWN,
    IMAGE_DEBUG_TYPE_VC_FEATURE, IMAGE_DLLCHARACTERISTICS_EX_CET_COMPAT,
    IMAGE_DLLCHARACTERISTICS_EX_CET_COMPAT_STRICT_MODE,
    IMAGE_DLLCHARACTERISTICS_EX_CET_DYNAMIC_APIS_ALLOW_IN_PROC_ONLY,
    IMAGE_DLLCHARACTERISTICS_EX_CET_RESERVED_1, IMAGE_DLLCHARACTERISTICS_EX_CET_RESERVED_2,
    IMAGE_DLLCHARACTERISTICS_EX_CET_SET_CONTEXT_IP_VALIDATION_RELAXED_MODE,
    IMAGE_DLLCHARACTERISTICS_EX_FORWARD_CFI_COMPAT,
    IMAGE_DLLCHARACTERISTICS_EX_HOTPATCH_COMPATIBLE, ImageDebugDirectory,
    ImageDebugDirectoryIterator, POGO_SIGNATURE_SIZE, POGOEntryIterator, POGOInfo, POGOInfoEntry,
    PdbChecksum, ReproInfo, VCFeatureInfo,
};
