//! The headers of an image, and its sections. The DOS header has the file offset of the PE header: the COFF header, the
//! optional header with the data directories, and the section headers, which map RVAs to file offsets. A caller reads
//! these first, and passes them to the other calls.
//! https://learn.microsoft.com/windows/win32/debug/pe-format

ghost use Rattle.std.specs.Prelude.{◌≡◌, ◌+◌, ◌*◌, ◌≤◌, ◌++◌, ◌^◌, drop, length, Ok};
ghost use Rattle.pe_core.specs.Directories.{kept_rows};
ghost use Rattle.pe_core.specs.Header.{header_view, optional_header_view};
ghost use Rattle.pe_core.specs.Refusals.{answer_of};
ghost use Rattle.pe_core.specs.Records.{section_table};
ghost use Rattle.pe_core.specs.Rows.{rows};
ghost use Rattle.calls_base.specs.Images.{all_directories, certificate_entry, directories_at, directory, or_absent, is_absent, image_info_of, image_at, map_of_image, with_optional, PutsSectionsAt};

use crate::results::{DONE, ROOM, number_of, options};
use pe_core::{
    DataDirectories, DataDirectory, Header, MAGIC_64, OptionalHeader, Result, SectionTable,
    find_offset, require_bytes,
};

/// The headers of an image. Without an optional header its fields are 0; so is a directory that is absent.
#[repr(C)]
#[derive(Clone, Copy)]
pub struct Image {
    /// `ImageBase`: the preferred virtual address of the first byte. Add RVAs to it.
    pub base: u64,
    /// File offset of the section headers.
    pub sections_offset: u64,
    /// File offset of the field that holds the checksum, 4 bytes; 0 without an optional header.
    pub checksum_offset: u64,
    /// File offset of the certificate table's entry among the directories, 8 bytes; 0 where there is no such entry.
    pub certificate_entry_offset: u64,
    /// RVA of the entry point, or 0.
    pub entry: u32,
    /// In bytes. If it is not a power of two, no RVA of a file is mapped.
    pub file_alignment: u32,
    /// How the image is read: bit 0 is permissive mode, bit 1 an image as loaded. Other bits make no difference. The
    /// calls that take this record read as it says.
    pub mode: u32,
    /// In bytes: sections start at multiples of it in memory.
    pub section_alignment: u32,
    /// `SizeOfImage`: bytes of the image in memory.
    pub size_of_image: u32,
    /// Bytes of the headers in the file, up to a multiple of the file alignment.
    pub size_of_headers: u32,
    /// `CheckSum`, as the file has it.
    pub checksum: u32,
    /// Seconds since 1970, or a hash in a reproducible build.
    pub time_date_stamp: u32,
    /// How many of the directories the image has, at most 16. The others are absent.
    pub number_of_directories: u32,
    /// By their indices, `IMAGE_DIRECTORY_ENTRY_*` of winnt.h. The `virtual_address` of the certificate table, 4, is a
    /// file offset, not an RVA.
    pub directories: [DataDirectory; 16],
    /// `IMAGE_FILE_MACHINE_AMD64` (0x8664), `IMAGE_FILE_MACHINE_ARM64` (0xAA64), `IMAGE_FILE_MACHINE_I386` (0x14C) or
    /// another.
    pub machine: u16,
    /// 64 for PE32+, 32 for PE32, 0 without an optional header.
    pub width: u16,
    pub number_of_sections: u16,
    /// `IMAGE_FILE_*` flags.
    pub characteristics: u16,
    /// `IMAGE_SUBSYSTEM_*`.
    pub subsystem: u16,
    /// `IMAGE_DLLCHARACTERISTICS_*` flags.
    pub dll_characteristics: u16,
}

// The indices of the directories that calls read, `IMAGE_DIRECTORY_ENTRY_*` of winnt.h.
pub const EXPORT_TABLE: usize = 0;

pub const IMPORT_TABLE: usize = 1;

pub const RESOURCE_TABLE: usize = 2;

pub const EXCEPTION_TABLE: usize = 3;

pub const CERTIFICATE_TABLE: usize = 4;

pub const BASE_RELOCATION_TABLE: usize = 5;

pub const DEBUG_TABLE: usize = 6;

pub const TLS_TABLE: usize = 9;

pub const LOAD_CONFIG_TABLE: usize = 10;

pub const DELAY_IMPORT_DESCRIPTOR: usize = 13;

pub const CLR_RUNTIME_HEADER: usize = 14;

pub const BOUND_IMPORT_TABLE: usize = 11;

/// Bytes from the PE signature to the optional header.
pub const SIZE_BEFORE_OPTIONAL_HEADER: u64 = 24;

/// Bytes from the optional header to its checksum.
const CHECKSUM_IN_HEADER: u64 = 64;

/// Bytes from the optional header to its directories, in PE32 and PE32+.
const DIRECTORIES_IN_HEADER_32: u64 = 96;

const DIRECTORIES_IN_HEADER_64: u64 = 112;

/// Bytes from the directories to that of the certificate table, the fifth.
const CERTIFICATE_ENTRY: u64 = 32;

/// A directory that is absent.
pub const ABSENT: DataDirectory = DataDirectory {
    virtual_address: 0,
    size: 0,
};

fn or_absent(directory: Option<DataDirectory>) -> DataDirectory
    ensures { result ≡ or_absent directory }
{
    match directory {
        Some(directory) => directory,
        None => ABSENT,
    }
}

/// Whether a directory is absent: both its fields are 0.
pub fn is_absent(directory: DataDirectory) -> bool
    ensures { result ≡ is_absent directory }
{
    directory.virtual_address == 0 && directory.size == 0
}

/// The directory with an index; absent where there is none.
pub fn directory(image: &Image, index: usize) -> DataDirectory
    ensures { result ≡ directory image.now index }
{
    match image.directories.get(index) {
        Some(directory) => *directory,
        None => ABSENT,
    }
}

/// All sixteen directories: those that the header does not have are absent.
pub fn directories_of(kept: &DataDirectories) -> [DataDirectory; 16]
    ensures { result ≡ all_directories (kept_rows kept.now) }
{
    [
        or_absent(kept.get(0)),
        or_absent(kept.get(1)),
        or_absent(kept.get(2)),
        or_absent(kept.get(3)),
        or_absent(kept.get(4)),
        or_absent(kept.get(5)),
        or_absent(kept.get(6)),
        or_absent(kept.get(7)),
        or_absent(kept.get(8)),
        or_absent(kept.get(9)),
        or_absent(kept.get(10)),
        or_absent(kept.get(11)),
        or_absent(kept.get(12)),
        or_absent(kept.get(13)),
        or_absent(kept.get(14)),
        or_absent(kept.get(15)),
    ]
}

/// The offset of the data directories in an optional header at an offset.
pub fn directories_at(start: u64, optional: &OptionalHeader) -> u64
    requires { start ≤ 2 ^ 33 }
    ensures { result ≡ directories_at start (optional_header_view optional.now) }
{
    if optional.standard_fields.magic == MAGIC_64 {
        start + DIRECTORIES_IN_HEADER_64
    } else {
        start + DIRECTORIES_IN_HEADER_32
    }
}

/// The offset of the certificate table's entry in an optional header at an offset; 0 where it has no such entry.
fn certificate_entry(start: u64, optional: &OptionalHeader) -> u64
    requires { start ≤ 2 ^ 33 }
    ensures { result ≡ certificate_entry start (optional_header_view optional.now) }
{
    if optional.data_directories.rows().len() <= 4 {
        return 0;
    }
    directories_at(start, optional) + CERTIFICATE_ENTRY
}

/// The offset of an RVA of an image.
pub fn offset_of(rva: u32, image: &Image, sections: &[SectionTable]) -> Option<usize>
    ensures { result ≡ map_of_image image.now sections.now rva }
{
    find_offset(
        rva as usize,
        sections,
        image.file_alignment,
        &options(image.mode),
    )
}

/// The image with what an optional header at an offset says.
fn with_optional(image: Image, start: u64, optional: &OptionalHeader) -> Image
    requires { start ≤ 2 ^ 33 }
    ensures { result ≡ with_optional image start (optional_header_view optional.now) }
{
    let fields = &optional.windows_fields;
    Image {
        base: fields.image_base,
        checksum_offset: start + CHECKSUM_IN_HEADER,
        certificate_entry_offset: certificate_entry(start, optional),
        entry: optional.standard_fields.address_of_entry_point,
        file_alignment: fields.file_alignment,
        section_alignment: fields.section_alignment,
        size_of_image: fields.size_of_image,
        size_of_headers: fields.size_of_headers,
        checksum: fields.check_sum,
        number_of_directories: optional.data_directories.rows().len() as u32,
        directories: directories_of(&optional.data_directories),
        width: if optional.standard_fields.magic == MAGIC_64 {
            64
        } else {
            32
        },
        subsystem: fields.subsystem,
        dll_characteristics: fields.dll_characteristics,
        ..image
    }
}

fn image_of(header: &Header, mode: u32) -> Image
    ensures { result ≡ image_info_of mode (header_view header.now) }
{
    let coff = &header.coff_header;
    let start = u64::from(header.dos_header.pe_pointer) + SIZE_BEFORE_OPTIONAL_HEADER;
    let without = Image {
        base: 0,
        sections_offset: start + u64::from(coff.size_of_optional_header),
        checksum_offset: 0,
        certificate_entry_offset: 0,
        entry: 0,
        file_alignment: 0,
        mode,
        section_alignment: 0,
        size_of_image: 0,
        size_of_headers: 0,
        checksum: 0,
        time_date_stamp: coff.time_date_stamp,
        number_of_directories: 0,
        directories: [ABSENT; 16],
        machine: coff.machine,
        width: 0,
        number_of_sections: coff.number_of_sections,
        characteristics: coff.characteristics,
        subsystem: 0,
        dll_characteristics: 0,
    };
    match &header.optional_header {
        Some(optional) => with_optional(without, start, optional),
        None => without,
    }
}

pub fn read_image(bytes: &[u8], mode: u32) -> Result<Image>
    ensures { answer_of result ≡ image_at bytes.now mode }
{
    let header = Header::parse_with_opts(bytes, &options(mode))?;
    Ok(image_of(&header, mode))
}

/// Writes so many section headers, which start at a file offset, to the start of `room`.
#[tactic(auto, using(std::proofs::lemmas::List::take_more_set, crate::proofs::Rooms::kept_more, crate::proofs::Rooms::joined), unfolding(pe_core::specs::Rows::each))]
fn put_sections(bytes: &[u8], offset: usize, count: usize, room: &mut [SectionTable])
    requires there { offset + 40 * count ≤ length bytes.now }
    requires room { count ≤ length room.old }
    ensures { room.new ≡ rows (section_table bytes.now) 40 offset count ++ drop count room.old }
{
    for i in 0..count {
        room[i] = SectionTable::at(bytes, offset + 40 * i);
    }
}

/// Writes so many section headers, which start at a file offset, to the start of `room`, and returns `DONE`. Errors: `ROOM`
/// where `room` has fewer entries; `SHORT`.
#[tactic(auto, using(crate::proofs::Rooms::no_sections))]
pub fn sections_into(bytes: &[u8], offset: usize, count: usize, room: &mut [SectionTable]) -> u32
    ensures { PutsSectionsAt bytes.now offset count result room.old room.new }
{
    if room.len() < count {
        return ROOM;
    }
    // Without sections it does not matter where their headers would be.
    if count == 0 {
        return DONE;
    }
    match require_bytes(bytes, offset, 40 * count) {
        Ok(()) => {
            put_sections(bytes, offset, count, room);
            DONE
        }
        Err(error) => number_of(&error),
    }
}
