//! Reads the resources of Windows executables: the tree of resource directories, version information and the manifest.
//! By convention the tree has three levels, for type, name and language. `ResourceData::parse` reads the version
//! information and the manifest, and `ResourceData::content_range` finds the content of any other resource with an id.
//! `ResourceData::leaves` walks over all resources, in every language.
//!
//! Layout: <https://learn.microsoft.com/windows/win32/debug/pe-format#the-rsrc-section>. That of version information is
//! this project's profile of <https://learn.microsoft.com/windows/win32/menurc/vs-versioninfo>.
//!
//! Every call is proved to return what its definition in `specs/` says, for every byte string. Only the calls that
//! return a text ask for memory.
#![tactic(auto)]

mod constants;
mod content;
mod directory;
mod entry;
pub mod laws;
mod leaf_position;
mod leaves;
mod manifest;
mod resource;
mod string;
mod tree_error;
mod version;
mod version_block;
mod version_block_error;

pub use constants::{
    IMAGE_RESOURCE_DATA_IS_DIRECTORY, IMAGE_RESOURCE_MASK, IMAGE_RESOURCE_NAME_IS_STRING,
    RESOURCE_ENTRY_SIZE, RESOURCE_STRING_FIELD_ALIGNMENT, RT_ACCELERATOR, RT_ANICURSOR, RT_ANIICON,
    RT_BITMAP, RT_CURSOR, RT_DIALOG, RT_DLGINCLUDE, RT_FONT, RT_FONTDIR, RT_GROUP_CURSOR,
    RT_GROUP_ICON, RT_HTML, RT_ICON, RT_MANIFEST, RT_MENU, RT_MESSAGETABLE, RT_PLUGPLAY, RT_RCDATA,
    RT_STRING, RT_VERSION, RT_VXD, VERSION_INFO_US_ENGLISH_UNICODE, VFT_APP, VFT_DLL, VFT_DRV,
    VFT_FONT, VFT_STATIC_LIB, VFT_UNKNOWN, VFT_VXD, VFT2_DRV_COMM, VFT2_DRV_DISPLAY,
    VFT2_DRV_INPUTMETHOD, VFT2_DRV_INSTALLABLE, VFT2_DRV_KEYBOARD, VFT2_DRV_LANGUAGE,
    VFT2_DRV_MOUSE, VFT2_DRV_NETWORK, VFT2_DRV_PRINTER, VFT2_DRV_SOUND, VFT2_DRV_SYSTEM,
    VFT2_DRV_VERSIONED_PRINTER, VFT2_FONT_RASTER, VFT2_FONT_TRUETYPE, VFT2_FONT_VECTOR,
    VFT2_UNKNOWN, VOS_BASE, VOS_DOS, VOS_DOS_WINDOWS16, VOS_DOS_WINDOWS32, VOS_NT,
    VOS_NT_WINDOWS32, VOS_OS216, VOS_OS216_PM16, VOS_OS216_PM32, VOS_OS232, VOS_PM16, VOS_PM32,
    VOS_UNKNOWN, VOS_WINCE, VOS_WINDOWS16, VOS_WINDOWS32, VS_FF_DEBUG, VS_FF_INFOINFERRED,
    VS_FF_PATCHED, VS_FF_PRERELEASE, VS_FF_PRIVATEBUILD, VS_FF_SPECIALBUILD, VS_FFI_FILEFLAGSMASK,
    VS_FFI_SIGNATURE, VS_FFI_STRUCVERSION, VS_VERSION_INFO_KEY,
};
pub use content::ResourceDataEntry;
pub use directory::{ImageResourceDirectory, ResourceEntryIterator};
pub use entry::ResourceEntry;
pub use leaf_position::LeafPosition;
pub use leaves::{ResourceLeaf, ResourceLeaves};
pub use manifest::ManifestData;
pub use pe_core::ByteRange;
pub use resource::ResourceData;
pub use string::{ResourceString, ResourceStringIterator};
pub use tree_error::ResourceTreeError;
pub use version::{StringFileInfo, VersionField, VersionInfo, VersionName, VsFixedFileInfo};
pub use version_block::{Translation, Translations, VersionBlock, VersionBlocks};
pub use version_block_error::VersionBlockError;
