//! Writes the records of the headers, field by field and in little-endian order. Offsets count from the start of the
//! buffer; the caller has checked that the record fits. Layouts:
//! <https://learn.microsoft.com/windows/win32/debug/pe-format>.

ghost use Rattle.std.specs.Prelude.{◌≡◌, ◌+◌, ◌*◌, ◌≤◌, ◌++◌, length};
ghost use Rattle.std.specs.List.{flat_map};
ghost use Rattle.pe_core.specs.Bytes.{bytes_of, splice};
ghost use Rattle.pe_core.specs.Header.{optional_header_view};
ghost use Rattle.pe_core.specs.Spelling.{spell_coff, spell_directory, spell_dos, spell_optional, spell_section, spell_standard_fields_32, spell_standard_fields_64, spell_windows_fields_32, spell_windows_fields_64};

use pe_core::{
    CoffHeader, DataDirectory, DosHeader, MAGIC_64, OptionalHeader, SectionTable, StandardFields,
    WindowsFields, set_slice, set_u8, set_u16, set_u32, set_u64,
};

/// Writes the low 4 bytes of the number at `offset`. PE32 has 4 bytes for fields that PE32+ has 8 for.
#[tactic(auto, unfolding(pe_core::specs::Bytes::bytes_of))]
fn set_low32(buffer: &mut [u8], offset: usize, n: u64)
    requires { offset + 4 ≤ length buffer.old }
    ensures { buffer.new ≡ splice buffer.old offset (bytes_of 4 n) }
{
    let bytes = n.to_le_bytes();
    set_slice(buffer, offset, &bytes[..4]);
}

/// Writes a DOS header, 64 bytes.
pub fn set_dos(buffer: &mut [u8], offset: usize, header: &DosHeader)
    requires { offset + 64 ≤ length buffer.old }
    ensures { buffer.new ≡ splice buffer.old offset (spell_dos header.now) }
{
    set_u16(buffer, offset, header.signature);
    set_slice(buffer, offset + 2, &header.rest);
    set_u32(buffer, offset + 60, header.pe_pointer);
}

/// Writes a COFF header, 20 bytes.
pub fn set_coff(buffer: &mut [u8], offset: usize, header: &CoffHeader)
    requires { offset + 20 ≤ length buffer.old }
    ensures { buffer.new ≡ splice buffer.old offset (spell_coff header.now) }
{
    set_u16(buffer, offset, header.machine);
    set_u16(buffer, offset + 2, header.number_of_sections);
    set_u32(buffer, offset + 4, header.time_date_stamp);
    set_u32(buffer, offset + 8, header.pointer_to_symbol_table);
    set_u32(buffer, offset + 12, header.number_of_symbol_table);
    set_u16(buffer, offset + 16, header.size_of_optional_header);
    set_u16(buffer, offset + 18, header.characteristics);
}

/// Writes the standard fields of PE32+, 24 bytes.
fn set_standard_fields_64(buffer: &mut [u8], offset: usize, header: &StandardFields)
    requires { offset + 24 ≤ length buffer.old }
    ensures { buffer.new ≡ splice buffer.old offset (spell_standard_fields_64 header.now) }
{
    set_u16(buffer, offset, header.magic);
    set_u8(buffer, offset + 2, header.major_linker_version);
    set_u8(buffer, offset + 3, header.minor_linker_version);
    set_u32(buffer, offset + 4, header.size_of_code);
    set_u32(buffer, offset + 8, header.size_of_initialized_data);
    set_u32(buffer, offset + 12, header.size_of_uninitialized_data);
    set_u32(buffer, offset + 16, header.address_of_entry_point);
    set_u32(buffer, offset + 20, header.base_of_code);
}

/// Writes the standard fields of PE32, 28 bytes: the same, and then the base of data.
fn set_standard_fields_32(buffer: &mut [u8], offset: usize, header: &StandardFields)
    requires { offset + 28 ≤ length buffer.old }
    ensures { buffer.new ≡ splice buffer.old offset (spell_standard_fields_32 header.now) }
{
    set_standard_fields_64(buffer, offset, header);
    set_u32(buffer, offset + 24, header.base_of_data);
}

/// Writes the Windows fields of PE32, 68 bytes. Of the image base and of the sizes of stack and heap the low 4 bytes
/// are written.
fn set_windows_fields_32(buffer: &mut [u8], offset: usize, header: &WindowsFields)
    requires { offset + 68 ≤ length buffer.old }
    ensures { buffer.new ≡ splice buffer.old offset (spell_windows_fields_32 header.now) }
{
    set_low32(buffer, offset, header.image_base);
    set_u32(buffer, offset + 4, header.section_alignment);
    set_u32(buffer, offset + 8, header.file_alignment);
    set_u16(buffer, offset + 12, header.major_operating_system_version);
    set_u16(buffer, offset + 14, header.minor_operating_system_version);
    set_u16(buffer, offset + 16, header.major_image_version);
    set_u16(buffer, offset + 18, header.minor_image_version);
    set_u16(buffer, offset + 20, header.major_subsystem_version);
    set_u16(buffer, offset + 22, header.minor_subsystem_version);
    set_u32(buffer, offset + 24, header.win32_version_value);
    set_u32(buffer, offset + 28, header.size_of_image);
    set_u32(buffer, offset + 32, header.size_of_headers);
    set_u32(buffer, offset + 36, header.check_sum);
    set_u16(buffer, offset + 40, header.subsystem);
    set_u16(buffer, offset + 42, header.dll_characteristics);
    set_low32(buffer, offset + 44, header.size_of_stack_reserve);
    set_low32(buffer, offset + 48, header.size_of_stack_commit);
    set_low32(buffer, offset + 52, header.size_of_heap_reserve);
    set_low32(buffer, offset + 56, header.size_of_heap_commit);
    set_u32(buffer, offset + 60, header.loader_flags);
    set_u32(buffer, offset + 64, header.number_of_rva_and_sizes);
}

/// Writes the Windows fields of PE32+, 88 bytes.
fn set_windows_fields_64(buffer: &mut [u8], offset: usize, header: &WindowsFields)
    requires { offset + 88 ≤ length buffer.old }
    ensures { buffer.new ≡ splice buffer.old offset (spell_windows_fields_64 header.now) }
{
    set_u64(buffer, offset, header.image_base);
    set_u32(buffer, offset + 8, header.section_alignment);
    set_u32(buffer, offset + 12, header.file_alignment);
    set_u16(buffer, offset + 16, header.major_operating_system_version);
    set_u16(buffer, offset + 18, header.minor_operating_system_version);
    set_u16(buffer, offset + 20, header.major_image_version);
    set_u16(buffer, offset + 22, header.minor_image_version);
    set_u16(buffer, offset + 24, header.major_subsystem_version);
    set_u16(buffer, offset + 26, header.minor_subsystem_version);
    set_u32(buffer, offset + 28, header.win32_version_value);
    set_u32(buffer, offset + 32, header.size_of_image);
    set_u32(buffer, offset + 36, header.size_of_headers);
    set_u32(buffer, offset + 40, header.check_sum);
    set_u16(buffer, offset + 44, header.subsystem);
    set_u16(buffer, offset + 46, header.dll_characteristics);
    set_u64(buffer, offset + 48, header.size_of_stack_reserve);
    set_u64(buffer, offset + 56, header.size_of_stack_commit);
    set_u64(buffer, offset + 64, header.size_of_heap_reserve);
    set_u64(buffer, offset + 72, header.size_of_heap_commit);
    set_u32(buffer, offset + 80, header.loader_flags);
    set_u32(buffer, offset + 84, header.number_of_rva_and_sizes);
}

/// Writes a data directory, 8 bytes.
fn set_directory(buffer: &mut [u8], offset: usize, header: &DataDirectory)
    requires { offset + 8 ≤ length buffer.old }
    ensures { buffer.new ≡ splice buffer.old offset (spell_directory header.now) }
{
    set_u32(buffer, offset, header.virtual_address);
    set_u32(buffer, offset + 4, header.size);
}

/// Writes a section header, 40 bytes.
pub fn set_section(buffer: &mut [u8], offset: usize, header: &SectionTable)
    requires { offset + 40 ≤ length buffer.old }
    ensures { buffer.new ≡ splice buffer.old offset (spell_section header.now) }
{
    set_slice(buffer, offset, &header.name);
    set_u32(buffer, offset + 8, header.virtual_size);
    set_u32(buffer, offset + 12, header.virtual_address);
    set_u32(buffer, offset + 16, header.size_of_raw_data);
    set_u32(buffer, offset + 20, header.pointer_to_raw_data);
    set_u32(buffer, offset + 24, header.pointer_to_relocations);
    set_u32(buffer, offset + 28, header.pointer_to_linenumbers);
    set_u16(buffer, offset + 32, header.number_of_relocations);
    set_u16(buffer, offset + 34, header.number_of_linenumbers);
    set_u32(buffer, offset + 36, header.characteristics);
}

/// Writes data directories one after the other, 8 bytes each.
fn set_directories(buffer: &mut [u8], offset: usize, rows: &[DataDirectory])
    requires { offset + 8 * length rows.now ≤ length buffer.old }
    ensures { buffer.new ≡ splice buffer.old offset (flat_map spell_directory rows.now) }
{
    for i in 0..rows.len() {
        set_directory(buffer, offset + 8 * i, &rows[i]);
    }
}

/// The size of an optional header in bytes, with the data directories that it keeps.
#[tactic(auto, using(crate::proofs::Laid::length_optional))]
pub fn optional_size(header: &OptionalHeader) -> usize
    ensures size { result ≡ length (spell_optional (optional_header_view header.now)) }
    ensures small { result ≤ 240 }
{
    let fields = if header.standard_fields.magic == MAGIC_64 {
        112
    } else {
        96
    };
    fields + 8 * header.data_directories.rows().len()
}

/// Writes the fields of PE32+ and the data directories after them.
fn set_pe32_plus(
    buffer: &mut [u8],
    offset: usize,
    standard: &StandardFields,
    windows: &WindowsFields,
    rows: &[DataDirectory],
)
    requires { offset + 112 + 8 * length rows.now ≤ length buffer.old }
    ensures { buffer.new ≡ splice buffer.old offset (spell_standard_fields_64 standard.now
        ++ spell_windows_fields_64 windows.now ++ flat_map spell_directory rows.now) }
{
    set_standard_fields_64(buffer, offset, standard);
    set_windows_fields_64(buffer, offset + 24, windows);
    set_directories(buffer, offset + 112, rows);
}

/// Writes the fields of PE32 and the data directories after them.
fn set_pe32(
    buffer: &mut [u8],
    offset: usize,
    standard: &StandardFields,
    windows: &WindowsFields,
    rows: &[DataDirectory],
)
    requires { offset + 96 + 8 * length rows.now ≤ length buffer.old }
    ensures { buffer.new ≡ splice buffer.old offset (spell_standard_fields_32 standard.now
        ++ spell_windows_fields_32 windows.now ++ flat_map spell_directory rows.now) }
{
    set_standard_fields_32(buffer, offset, standard);
    set_windows_fields_32(buffer, offset + 28, windows);
    set_directories(buffer, offset + 96, rows);
}

/// Writes an optional header with the data directories that it keeps.
#[tactic(auto, using(crate::proofs::Laid::length_optional), unfolding(pe_core::specs::Spelling::spell_optional))]
pub fn set_optional(buffer: &mut [u8], offset: usize, header: &OptionalHeader)
    requires { offset + length
        (spell_optional (optional_header_view header.now)) ≤ length buffer.old }
    ensures { buffer.new ≡ splice buffer.old offset
        (spell_optional (optional_header_view header.now)) }
{
    let standard = &header.standard_fields;
    let windows = &header.windows_fields;
    let rows = header.data_directories.rows();
    if standard.magic == MAGIC_64 {
        set_pe32_plus(buffer, offset, standard, windows, rows);
    } else {
        set_pe32(buffer, offset, standard, windows, rows);
    }
}
