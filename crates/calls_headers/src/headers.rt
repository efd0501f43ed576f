//! All numbers of the headers of an image, by their names: the DOS header, the COFF header, the optional header, the data
//! directories. `image` reads of them what other calls take; a tool that shows or compares headers reads all.
//! https://learn.microsoft.com/windows/win32/debug/pe-format#overview

ghost use Rattle.std.specs.Prelude.{◌≡◌, ◌≤◌, ◌^◌};
ghost use Rattle.pe_core.specs.Header.{header_view, optional_header_view};
ghost use Rattle.pe_core.specs.Refusals.{answer_of};
ghost use Rattle.calls_headers.specs.Headers.{coff_fields, dos_fields, headers_at, headers_of, optional_fields, with_fields, overlay_at};

use calls_base::image::{ABSENT, SIZE_BEFORE_OPTIONAL_HEADER, directories_at, directories_of};
use calls_base::ranges::{Range, range_of};
use calls_base::results::options;
use calls_base::view::View;
use pe_core::{
    CoffHeader, DataDirectory, DosHeader, Header, OptionalHeader, Result, SIZE_OF_DOS_HEADER,
    read_u16,
};
use pe_directories::overlay_range;

/// The DOS header, `IMAGE_DOS_HEADER` of winnt.h, in its layout. DOS reads what stands between the signature and the last
/// field, and Windows only these two.
#[repr(C)]
#[derive(Clone, Copy)]
pub struct DosFields {
    /// `e_magic`: 0x5A4D, "MZ".
    pub signature: u16,
    /// `e_cblp`.
    pub bytes_on_last_page: u16,
    /// `e_cp`: pages of 512 bytes.
    pub pages_in_file: u16,
    /// `e_crlc`: how many.
    pub relocations: u16,
    /// `e_cparhdr`: paragraphs of 16 bytes.
    pub size_of_header_in_paragraphs: u16,
    /// `e_minalloc`.
    pub minimum_extra_paragraphs: u16,
    /// `e_maxalloc`.
    pub maximum_extra_paragraphs: u16,
    /// `e_ss`.
    pub initial_relative_ss: u16,
    /// `e_sp`.
    pub initial_sp: u16,
    /// `e_csum`.
    pub checksum: u16,
    /// `e_ip`.
    pub initial_ip: u16,
    /// `e_cs`.
    pub initial_relative_cs: u16,
    /// `e_lfarlc`: file offset of the relocations.
    pub relocations_offset: u16,
    /// `e_ovno`.
    pub overlay_number: u16,
    /// `e_res`.
    pub reserved: [u16; 4],
    /// `e_oemid`.
    pub oem_id: u16,
    /// `e_oeminfo`.
    pub oem_information: u16,
    /// `e_res2`.
    pub reserved2: [u16; 10],
    /// `e_lfanew`: file offset of the PE signature.
    pub pe_pointer: u32,
}

/// The COFF header, `IMAGE_FILE_HEADER` of winnt.h.
#[repr(C)]
#[derive(Clone, Copy)]
pub struct CoffFields {
    /// Seconds since 1970, or a hash in a reproducible build.
    pub time_date_stamp: u32,
    /// File offset of the COFF symbols, or 0.
    pub pointer_to_symbol_table: u32,
    /// How many entries they have, 18 bytes each, auxiliary records included.
    pub number_of_symbol_table: u32,
    /// `IMAGE_FILE_MACHINE_*`.
    pub machine: u16,
    pub number_of_sections: u16,
    /// In bytes; 0 where there is no optional header.
    pub size_of_optional_header: u16,
    /// `IMAGE_FILE_*` flags.
    pub characteristics: u16,
}

/// The optional header, `IMAGE_OPTIONAL_HEADER32` or `IMAGE_OPTIONAL_HEADER64` of winnt.h: the fields of COFF and those of
/// Windows.
#[repr(C)]
#[derive(Clone, Copy)]
pub struct OptionalFields {
    /// `ImageBase`: the preferred virtual address of the first byte. 4 bytes in PE32.
    pub image_base: u64,
    /// In bytes; 4 bytes in PE32, as the next three.
    pub size_of_stack_reserve: u64,
    /// In bytes.
    pub size_of_stack_commit: u64,
    /// In bytes.
    pub size_of_heap_reserve: u64,
    /// In bytes.
    pub size_of_heap_commit: u64,
    /// In bytes, of all sections of code.
    pub size_of_code: u32,
    /// In bytes, of all sections of initialized data.
    pub size_of_initialized_data: u32,
    /// In bytes, of all sections of uninitialized data.
    pub size_of_uninitialized_data: u32,
    /// RVA, or 0.
    pub address_of_entry_point: u32,
    /// RVA of the code.
    pub base_of_code: u32,
    /// RVA of the data; 0 in PE32+, which has no such field.
    pub base_of_data: u32,
    /// In bytes: sections start at multiples of it in memory.
    pub section_alignment: u32,
    /// In bytes: the data of sections start at multiples of it in the file.
    pub file_alignment: u32,
    /// Reserved.
    pub win32_version_value: u32,
    /// In bytes, of the image in memory.
    pub size_of_image: u32,
    /// In bytes, up to a multiple of the file alignment.
    pub size_of_headers: u32,
    /// `CheckSum`, as the file has it.
    pub check_sum: u32,
    /// Reserved.
    pub loader_flags: u32,
    /// How many directories the header says that it has.
    pub number_of_rva_and_sizes: u32,
    /// How many of them are kept: at most 16.
    pub number_of_directories: u32,
    /// 0x10B in PE32, 0x20B in PE32+.
    pub magic: u16,
    /// The operating system that is required.
    pub major_operating_system_version: u16,
    pub minor_operating_system_version: u16,
    /// The version of the image.
    pub major_image_version: u16,
    pub minor_image_version: u16,
    /// The version of the subsystem.
    pub major_subsystem_version: u16,
    pub minor_subsystem_version: u16,
    /// `IMAGE_SUBSYSTEM_*`.
    pub subsystem: u16,
    /// `IMAGE_DLLCHARACTERISTICS_*` flags.
    pub dll_characteristics: u16,
    /// The version of the linker.
    pub major_linker_version: u8,
    pub minor_linker_version: u8,
}

/// The headers of an image. Without an optional header its fields are 0, and so are the offsets in it and its directories.
#[repr(C)]
#[derive(Clone, Copy)]
pub struct Headers {
    pub optional: OptionalFields,
    /// The bytes between the DOS header and the PE signature: none where that overlaps the DOS header.
    pub dos_stub: Range,
    /// File offset of the optional header.
    pub optional_offset: u64,
    /// File offset of the data directories, 8 bytes each.
    pub directories_offset: u64,
    pub dos: DosFields,
    pub coff: CoffFields,
    /// The PE signature: 0x4550, "PE".
    pub signature: u32,
    /// By their indices, `IMAGE_DIRECTORY_ENTRY_*` of winnt.h. Those that the image does not have are absent.
    pub directories: [DataDirectory; 16],
}

/// The fields of an optional header that is absent.
const NO_OPTIONAL_FIELDS: OptionalFields = OptionalFields {
    image_base: 0,
    size_of_stack_reserve: 0,
    size_of_stack_commit: 0,
    size_of_heap_reserve: 0,
    size_of_heap_commit: 0,
    size_of_code: 0,
    size_of_initialized_data: 0,
    size_of_uninitialized_data: 0,
    address_of_entry_point: 0,
    base_of_code: 0,
    base_of_data: 0,
    section_alignment: 0,
    file_alignment: 0,
    win32_version_value: 0,
    size_of_image: 0,
    size_of_headers: 0,
    check_sum: 0,
    loader_flags: 0,
    number_of_rva_and_sizes: 0,
    number_of_directories: 0,
    magic: 0,
    major_operating_system_version: 0,
    minor_operating_system_version: 0,
    major_image_version: 0,
    minor_image_version: 0,
    major_subsystem_version: 0,
    minor_subsystem_version: 0,
    subsystem: 0,
    dll_characteristics: 0,
    major_linker_version: 0,
    minor_linker_version: 0,
};

/// The fields of a DOS header. Those after its signature start at offset 2.
fn dos_fields(header: &DosHeader) -> DosFields
    ensures { result ≡ dos_fields header.now }
{
    let rest = &header.rest;
    DosFields {
        signature: header.signature,
        bytes_on_last_page: read_u16(rest, 0),
        pages_in_file: read_u16(rest, 2),
        relocations: read_u16(rest, 4),
        size_of_header_in_paragraphs: read_u16(rest, 6),
        minimum_extra_paragraphs: read_u16(rest, 8),
        maximum_extra_paragraphs: read_u16(rest, 10),
        initial_relative_ss: read_u16(rest, 12),
        initial_sp: read_u16(rest, 14),
        checksum: read_u16(rest, 16),
        initial_ip: read_u16(rest, 18),
        initial_relative_cs: read_u16(rest, 20),
        relocations_offset: read_u16(rest, 22),
        overlay_number: read_u16(rest, 24),
        reserved: [
            read_u16(rest, 26),
            read_u16(rest, 28),
            read_u16(rest, 30),
            read_u16(rest, 32),
        ],
        oem_id: read_u16(rest, 34),
        oem_information: read_u16(rest, 36),
        reserved2: [
            read_u16(rest, 38),
            read_u16(rest, 40),
            read_u16(rest, 42),
            read_u16(rest, 44),
            read_u16(rest, 46),
            read_u16(rest, 48),
            read_u16(rest, 50),
            read_u16(rest, 52),
            read_u16(rest, 54),
            read_u16(rest, 56),
        ],
        pe_pointer: header.pe_pointer,
    }
}

/// The fields of a COFF header.
pub fn coff_fields(header: &CoffHeader) -> CoffFields
    ensures { result ≡ coff_fields header.now }
{
    CoffFields {
        time_date_stamp: header.time_date_stamp,
        pointer_to_symbol_table: header.pointer_to_symbol_table,
        number_of_symbol_table: header.number_of_symbol_table,
        machine: header.machine,
        number_of_sections: header.number_of_sections,
        size_of_optional_header: header.size_of_optional_header,
        characteristics: header.characteristics,
    }
}

fn optional_fields(optional: &OptionalHeader) -> OptionalFields
    ensures { result ≡ optional_fields (optional_header_view optional.now) }
{
    let (standard, windows) = (&optional.standard_fields, &optional.windows_fields);
    OptionalFields {
        image_base: windows.image_base,
        size_of_stack_reserve: windows.size_of_stack_reserve,
        size_of_stack_commit: windows.size_of_stack_commit,
        size_of_heap_reserve: windows.size_of_heap_reserve,
        size_of_heap_commit: windows.size_of_heap_commit,
        size_of_code: standard.size_of_code,
        size_of_initialized_data: standard.size_of_initialized_data,
        size_of_uninitialized_data: standard.size_of_uninitialized_data,
        address_of_entry_point: standard.address_of_entry_point,
        base_of_code: standard.base_of_code,
        base_of_data: standard.base_of_data,
        section_alignment: windows.section_alignment,
        file_alignment: windows.file_alignment,
        win32_version_value: windows.win32_version_value,
        size_of_image: windows.size_of_image,
        size_of_headers: windows.size_of_headers,
        check_sum: windows.check_sum,
        loader_flags: windows.loader_flags,
        number_of_rva_and_sizes: windows.number_of_rva_and_sizes,
        number_of_directories: optional.data_directories.rows().len() as u32,
        magic: standard.magic,
        major_operating_system_version: windows.major_operating_system_version,
        minor_operating_system_version: windows.minor_operating_system_version,
        major_image_version: windows.major_image_version,
        minor_image_version: windows.minor_image_version,
        major_subsystem_version: windows.major_subsystem_version,
        minor_subsystem_version: windows.minor_subsystem_version,
        subsystem: windows.subsystem,
        dll_characteristics: windows.dll_characteristics,
        major_linker_version: standard.major_linker_version,
        minor_linker_version: standard.minor_linker_version,
    }
}

/// The headers with what an optional header at an offset says.
fn with_fields(headers: Headers, start: u64, optional: &OptionalHeader) -> Headers
    requires { start ≤ 2 ^ 33 }
    ensures { result ≡ with_fields headers start (optional_header_view optional.now) }
{
    Headers {
        optional: optional_fields(optional),
        optional_offset: start,
        directories_offset: directories_at(start, optional),
        directories: directories_of(&optional.data_directories),
        ..headers
    }
}

fn headers_of(header: &Header) -> Headers
    ensures { result ≡ headers_of (header_view header.now) }
{
    let without = Headers {
        optional: NO_OPTIONAL_FIELDS,
        dos_stub: Range {
            offset: u64::from(SIZE_OF_DOS_HEADER),
            length: header.dos_stub.len() as u64,
        },
        optional_offset: 0,
        directories_offset: 0,
        dos: dos_fields(&header.dos_header),
        coff: coff_fields(&header.coff_header),
        signature: header.signature,
        directories: [ABSENT; 16],
    };
    match &header.optional_header {
        Some(optional) => {
            let start = u64::from(header.dos_header.pe_pointer) + SIZE_BEFORE_OPTIONAL_HEADER;
            with_fields(without, start, optional)
        }
        None => without,
    }
}

/// The headers of an image.
pub fn read_headers(bytes: &[u8], mode: u32) -> Result<Headers>
    ensures { answer_of result ≡ headers_at bytes.now mode }
{
    let header = Header::parse_with_opts(bytes, &options(mode))?;
    Ok(headers_of(&header))
}

pub fn overlay_at(view: &View) -> Option<Range>
    ensures { result ≡ overlay_at view.now.bytes.now view.now.image.now view.now.sections.now }
{
    if !options(view.image.mode).resolve_rva {
        return None;
    }
    let overlay = overlay_range(view.bytes.len(), view.image.size_of_headers, view.sections)?;
    Some(range_of(overlay))
}
