//! Constants of resources: the ids of resource types, the bits of directory entries, and the numbers in fixed file
//! information. Resource types: <https://learn.microsoft.com/windows/win32/menurc/resource-types>; fixed file
//! information: <https://learn.microsoft.com/windows/win32/api/verrsrc/ns-verrsrc-vs_fixedfileinfo>.

/// The size of an entry of a resource directory in bytes.
pub const RESOURCE_ENTRY_SIZE: usize = 8;

/// The alignment of the value of a version string, in bytes.
pub const RESOURCE_STRING_FIELD_ALIGNMENT: usize = 4;

/// Resource type: hardware-dependent cursor.
pub const RT_CURSOR: u16 = 1;

/// Resource type: bitmap.
pub const RT_BITMAP: u16 = 2;

/// Resource type: hardware-dependent icon.
pub const RT_ICON: u16 = 3;

/// Resource type: menu.
pub const RT_MENU: u16 = 4;

/// Resource type: dialog box.
pub const RT_DIALOG: u16 = 5;

/// Resource type: string table.
pub const RT_STRING: u16 = 6;

/// Resource type: font directory.
pub const RT_FONTDIR: u16 = 7;

/// Resource type: font.
pub const RT_FONT: u16 = 8;

/// Resource type: accelerator table, which maps keys to commands.
pub const RT_ACCELERATOR: u16 = 9;

/// Resource type: raw data of the application.
pub const RT_RCDATA: u16 = 10;

/// Resource type: message table.
pub const RT_MESSAGETABLE: u16 = 11;

/// Resource type: hardware-independent cursor, a group of `RT_CURSOR`.
pub const RT_GROUP_CURSOR: u16 = 12;

/// Resource type: hardware-independent icon, a group of `RT_ICON`.
pub const RT_GROUP_ICON: u16 = 14;

/// Resource type: version information.
pub const RT_VERSION: u16 = 16;

/// Resource type: name of the header file for a dialog.
pub const RT_DLGINCLUDE: u16 = 17;

/// Resource type: Plug and Play data.
pub const RT_PLUGPLAY: u16 = 19;

/// Resource type: virtual device driver (VxD).
pub const RT_VXD: u16 = 20;

/// Resource type: animated cursor.
pub const RT_ANICURSOR: u16 = 21;

/// Resource type: animated icon.
pub const RT_ANIICON: u16 = 22;

/// Resource type: HTML page.
pub const RT_HTML: u16 = 23;

/// Resource type: manifest.
pub const RT_MANIFEST: u16 = 24;

/// The bit of `name_or_id` that is set if the entry has a name.
pub const IMAGE_RESOURCE_NAME_IS_STRING: u32 = 0x8000_0000;

/// The bit of `offset_to_data_or_directory` that is set if the entry leads to a directory.
pub const IMAGE_RESOURCE_DATA_IS_DIRECTORY: u32 = 0x8000_0000;

/// The other 31 bits of these two fields.
pub const IMAGE_RESOURCE_MASK: u32 = 0x7FFF_FFFF;

/// The signature of the fixed file information.
pub const VS_FFI_SIGNATURE: u32 = 0xFEEF_04BD;

/// The version of the structure of the fixed file information: 1.0.
pub const VS_FFI_STRUCVERSION: u32 = 0x0001_0000;

/// The valid bits of `file_flags`: all `VS_FF_..`.
pub const VS_FFI_FILEFLAGSMASK: u32 = 0x3F;

/// File flag: the file contains debugging information.
pub const VS_FF_DEBUG: u32 = 1;

/// File flag: the file is a development version, not a released product.
pub const VS_FF_PRERELEASE: u32 = 2;

/// File flag: the file was patched. It differs from the original file of the same version.
pub const VS_FF_PATCHED: u32 = 4;

/// File flag: the file was not built by the standard release procedure. `PrivateBuild` says why.
pub const VS_FF_PRIVATEBUILD: u32 = 8;

/// File flag: the version information was made at run time.
pub const VS_FF_INFOINFERRED: u32 = 0x10;

/// File flag: the file is a variant of the normal file of the same version. `SpecialBuild` says how it differs.
pub const VS_FF_SPECIALBUILD: u32 = 0x20;

/// File OS: unknown.
pub const VOS_UNKNOWN: u32 = 0;

/// File OS: MS-DOS.
pub const VOS_DOS: u32 = 0x1_0000;

/// File OS: 16-bit OS/2.
pub const VOS_OS216: u32 = 0x2_0000;

/// File OS: 32-bit OS/2.
pub const VOS_OS232: u32 = 0x3_0000;

/// File OS: Windows NT.
pub const VOS_NT: u32 = 0x4_0000;

/// File OS: Windows CE.
pub const VOS_WINCE: u32 = 0x5_0000;

/// File OS, low 16 bits: no environment.
pub const VOS_BASE: u32 = 0;

/// File OS, low 16 bits: 16-bit Windows.
pub const VOS_WINDOWS16: u32 = 1;

/// File OS, low 16 bits: 16-bit Presentation Manager.
pub const VOS_PM16: u32 = 2;

/// File OS, low 16 bits: 32-bit Presentation Manager.
pub const VOS_PM32: u32 = 3;

/// File OS, low 16 bits: 32-bit Windows.
pub const VOS_WINDOWS32: u32 = 4;

/// File OS: 16-bit Windows on MS-DOS.
pub const VOS_DOS_WINDOWS16: u32 = 0x1_0001;

/// File OS: 32-bit Windows on MS-DOS.
pub const VOS_DOS_WINDOWS32: u32 = 0x1_0004;

/// File OS: 16-bit Presentation Manager on 16-bit OS/2.
pub const VOS_OS216_PM16: u32 = 0x2_0002;

/// File OS: 32-bit Presentation Manager on 32-bit OS/2.
pub const VOS_OS216_PM32: u32 = 0x3_0003;

/// File OS: 32-bit Windows on Windows NT.
pub const VOS_NT_WINDOWS32: u32 = 0x4_0004;

/// File type: unknown.
pub const VFT_UNKNOWN: u32 = 0;

/// File type: application.
pub const VFT_APP: u32 = 1;

/// File type: DLL.
pub const VFT_DLL: u32 = 2;

/// File type: device driver.
pub const VFT_DRV: u32 = 3;

/// File type: font.
pub const VFT_FONT: u32 = 4;

/// File type: virtual device.
pub const VFT_VXD: u32 = 5;

/// File type: static library.
pub const VFT_STATIC_LIB: u32 = 7;

/// File subtype: unknown.
pub const VFT2_UNKNOWN: u32 = 0;

/// Subtype of a driver: printer.
pub const VFT2_DRV_PRINTER: u32 = 1;

/// Subtype of a driver: keyboard.
pub const VFT2_DRV_KEYBOARD: u32 = 2;

/// Subtype of a driver: language.
pub const VFT2_DRV_LANGUAGE: u32 = 3;

/// Subtype of a driver: display.
pub const VFT2_DRV_DISPLAY: u32 = 4;

/// Subtype of a driver: mouse.
pub const VFT2_DRV_MOUSE: u32 = 5;

/// Subtype of a driver: network.
pub const VFT2_DRV_NETWORK: u32 = 6;

/// Subtype of a driver: system.
pub const VFT2_DRV_SYSTEM: u32 = 7;

/// Subtype of a driver: installable.
pub const VFT2_DRV_INSTALLABLE: u32 = 8;

/// Subtype of a driver: sound.
pub const VFT2_DRV_SOUND: u32 = 9;

/// Subtype of a driver: communications.
pub const VFT2_DRV_COMM: u32 = 10;

/// Subtype of a driver: input method.
pub const VFT2_DRV_INPUTMETHOD: u32 = 11;

/// Subtype of a driver: versioned printer.
pub const VFT2_DRV_VERSIONED_PRINTER: u32 = 12;

/// Subtype of a font: raster.
pub const VFT2_FONT_RASTER: u32 = 1;

/// Subtype of a font: vector.
pub const VFT2_FONT_VECTOR: u32 = 2;

/// Subtype of a font: TrueType.
pub const VFT2_FONT_TRUETYPE: u32 = 3;

/// A language and a code page as they are in a key of version information: language 0x0409, US English, and code page
/// 0x04E4.
pub const VERSION_INFO_US_ENGLISH_UNICODE: &str = "040904E4";

/// The key of the string with the fixed file information as its value.
pub const VS_VERSION_INFO_KEY: &str = "VS_VERSION_INFO";
