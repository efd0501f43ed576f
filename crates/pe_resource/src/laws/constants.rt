//! Laws of the constants: each has the number or the text that it should have.

ghost use Rattle.std.specs.Prelude.{◌≡◌, codes};

use crate::constants::{
    IMAGE_RESOURCE_DATA_IS_DIRECTORY, IMAGE_RESOURCE_MASK, IMAGE_RESOURCE_NAME_IS_STRING,
    RESOURCE_ENTRY_SIZE, RESOURCE_STRING_FIELD_ALIGNMENT, RT_ACCELERATOR, RT_ANICURSOR, RT_ANIICON,
    RT_BITMAP, RT_CURSOR, RT_DIALOG, RT_DLGINCLUDE, RT_FONT, RT_FONTDIR, RT_GROUP_CURSOR,
    RT_GROUP_ICON, RT_HTML, RT_ICON, RT_MANIFEST, RT_MENU, RT_MESSAGETABLE, RT_PLUGPLAY, RT_RCDATA,
    RT_STRING, RT_VERSION, RT_VXD, VERSION_INFO_US_ENGLISH_UNICODE, VFT_APP, VFT_DLL, VFT_DRV,
    VFT_FONT, VFT_STATIC_LIB, VFT_UNKNOWN, VFT_VXD, VFT2_DRV_COMM, VFT2_DRV_DISPLAY,
    VFT2_DRV_INPUTMETHOD, VFT2_DRV_INSTALLABLE, VFT2_DRV_KEYBOARD, VFT2_DRV_LANGUAGE,
    VFT2_DRV_MOUSE, VFT2_DRV_NETWORK, VFT2_DRV_PRINTER, VFT2_DRV_SOUND, VFT2_DRV_SYSTEM,
    VFT2_DRV_VERSIONED_PRINTER, VFT2_FONT_RASTER, VFT2_FONT_TRUETYPE, VFT2_FONT_VECTOR,
    VFT2_UNKNOWN, VOS_BASE, VOS_DOS, VOS_DOS_WINDOWS16, VOS_DOS_WINDOWS32, VOS_NT,
    VOS_NT_WINDOWS32, VOS_OS216, VOS_OS216_PM16, VOS_OS216_PM32, VOS_OS232, VOS_PM16, VOS_PM32,
    VOS_UNKNOWN, VOS_WINCE, VOS_WINDOWS16, VOS_WINDOWS32, VS_FF_DEBUG, VS_FF_INFOINFERRED,
    VS_FF_PATCHED, VS_FF_PRERELEASE, VS_FF_PRIVATEBUILD, VS_FF_SPECIALBUILD, VS_FFI_FILEFLAGSMASK,
    VS_FFI_SIGNATURE, VS_FFI_STRUCVERSION, VS_VERSION_INFO_KEY,
};

/// The size of directory entries, the alignment of values, and the bits of entries.
pub fn constants_of_entries()
    ensures resource_entry_size { RESOURCE_ENTRY_SIZE ≡ 8 }
    ensures resource_string_field_alignment { RESOURCE_STRING_FIELD_ALIGNMENT ≡ 4 }
    ensures image_resource_name_is_string { IMAGE_RESOURCE_NAME_IS_STRING ≡ 0x80000000 }
    ensures image_resource_data_is_directory { IMAGE_RESOURCE_DATA_IS_DIRECTORY ≡ 0x80000000 }
    ensures image_resource_mask { IMAGE_RESOURCE_MASK ≡ 0x7FFFFFFF }
{}

/// The resource types.
pub fn kinds_of_resources()
    ensures rt_cursor { RT_CURSOR ≡ 1 }
    ensures rt_bitmap { RT_BITMAP ≡ 2 }
    ensures rt_icon { RT_ICON ≡ 3 }
    ensures rt_menu { RT_MENU ≡ 4 }
    ensures rt_dialog { RT_DIALOG ≡ 5 }
    ensures rt_string { RT_STRING ≡ 6 }
    ensures rt_fontdir { RT_FONTDIR ≡ 7 }
    ensures rt_font { RT_FONT ≡ 8 }
    ensures rt_accelerator { RT_ACCELERATOR ≡ 9 }
    ensures rt_rcdata { RT_RCDATA ≡ 10 }
    ensures rt_messagetable { RT_MESSAGETABLE ≡ 11 }
    ensures rt_group_cursor { RT_GROUP_CURSOR ≡ 12 }
    ensures rt_group_icon { RT_GROUP_ICON ≡ 14 }
    ensures rt_version { RT_VERSION ≡ 16 }
    ensures rt_dlginclude { RT_DLGINCLUDE ≡ 17 }
    ensures rt_plugplay { RT_PLUGPLAY ≡ 19 }
    ensures rt_vxd { RT_VXD ≡ 20 }
    ensures rt_anicursor { RT_ANICURSOR ≡ 21 }
    ensures rt_aniicon { RT_ANIICON ≡ 22 }
    ensures rt_html { RT_HTML ≡ 23 }
    ensures rt_manifest { RT_MANIFEST ≡ 24 }
{}

/// The signature, version and flags of the fixed file information.
pub fn constants_of_fixed_information()
    ensures vs_ffi_signature { VS_FFI_SIGNATURE ≡ 0xFEEF04BD }
    ensures vs_ffi_strucversion { VS_FFI_STRUCVERSION ≡ 0x00010000 }
    ensures vs_ffi_fileflagsmask { VS_FFI_FILEFLAGSMASK ≡ 0x3F }
    ensures vs_ff_debug { VS_FF_DEBUG ≡ 1 }
    ensures vs_ff_prerelease { VS_FF_PRERELEASE ≡ 2 }
    ensures vs_ff_patched { VS_FF_PATCHED ≡ 4 }
    ensures vs_ff_privatebuild { VS_FF_PRIVATEBUILD ≡ 8 }
    ensures vs_ff_infoinferred { VS_FF_INFOINFERRED ≡ 0x10 }
    ensures vs_ff_specialbuild { VS_FF_SPECIALBUILD ≡ 0x20 }
{}

/// The systems that files are made for.
pub fn systems_of_files()
    ensures vos_unknown { VOS_UNKNOWN ≡ 0 }
    ensures vos_dos { VOS_DOS ≡ 0x10000 }
    ensures vos_os216 { VOS_OS216 ≡ 0x20000 }
    ensures vos_os232 { VOS_OS232 ≡ 0x30000 }
    ensures vos_nt { VOS_NT ≡ 0x40000 }
    ensures vos_wince { VOS_WINCE ≡ 0x50000 }
    ensures vos_base { VOS_BASE ≡ 0 }
    ensures vos_windows16 { VOS_WINDOWS16 ≡ 1 }
    ensures vos_pm16 { VOS_PM16 ≡ 2 }
    ensures vos_pm32 { VOS_PM32 ≡ 3 }
    ensures vos_windows32 { VOS_WINDOWS32 ≡ 4 }
    ensures vos_dos_windows16 { VOS_DOS_WINDOWS16 ≡ 0x10001 }
    ensures vos_dos_windows32 { VOS_DOS_WINDOWS32 ≡ 0x10004 }
    ensures vos_os216_pm16 { VOS_OS216_PM16 ≡ 0x20002 }
    ensures vos_os216_pm32 { VOS_OS216_PM32 ≡ 0x30003 }
    ensures vos_nt_windows32 { VOS_NT_WINDOWS32 ≡ 0x40004 }
{}

/// The types of files, and the subtypes of drivers and fonts.
pub fn kinds_of_files()
    ensures vft_unknown { VFT_UNKNOWN ≡ 0 }
    ensures vft_app { VFT_APP ≡ 1 }
    ensures vft_dll { VFT_DLL ≡ 2 }
    ensures vft_drv { VFT_DRV ≡ 3 }
    ensures vft_font { VFT_FONT ≡ 4 }
    ensures vft_vxd { VFT_VXD ≡ 5 }
    ensures vft_static_lib { VFT_STATIC_LIB ≡ 7 }
    ensures vft2_unknown { VFT2_UNKNOWN ≡ 0 }
    ensures vft2_drv_printer { VFT2_DRV_PRINTER ≡ 1 }
    ensures vft2_drv_keyboard { VFT2_DRV_KEYBOARD ≡ 2 }
    ensures vft2_drv_language { VFT2_DRV_LANGUAGE ≡ 3 }
    ensures vft2_drv_display { VFT2_DRV_DISPLAY ≡ 4 }
    ensures vft2_drv_mouse { VFT2_DRV_MOUSE ≡ 5 }
    ensures vft2_drv_network { VFT2_DRV_NETWORK ≡ 6 }
    ensures vft2_drv_system { VFT2_DRV_SYSTEM ≡ 7 }
    ensures vft2_drv_installable { VFT2_DRV_INSTALLABLE ≡ 8 }
    ensures vft2_drv_sound { VFT2_DRV_SOUND ≡ 9 }
    ensures vft2_drv_comm { VFT2_DRV_COMM ≡ 10 }
    ensures vft2_drv_inputmethod { VFT2_DRV_INPUTMETHOD ≡ 11 }
    ensures vft2_drv_versioned_printer { VFT2_DRV_VERSIONED_PRINTER ≡ 12 }
    ensures vft2_font_raster { VFT2_FONT_RASTER ≡ 1 }
    ensures vft2_font_vector { VFT2_FONT_VECTOR ≡ 2 }
    ensures vft2_font_truetype { VFT2_FONT_TRUETYPE ≡ 3 }
{}

/// The keys of version information.
pub fn keys_of_version_information()
    ensures us_english { VERSION_INFO_US_ENGLISH_UNICODE.now ≡ codes "040904E4" }
    ensures version_info { VS_VERSION_INFO_KEY.now ≡ codes "VS_VERSION_INFO" }
{}
