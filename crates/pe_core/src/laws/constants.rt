//! The numbers of the format.

ghost use Rattle.std.specs.Prelude.{◌≡◌};
ghost use Rattle.pe_core.specs.Offsets.{empty_range};
ghost use Rattle.pe_core.specs.declared.byte_range.TheConstants.ByteRange.{EMPTY};
ghost use Rattle.pe_core.specs.declared.data_directories.TheConstants.{MOST_DIRECTORIES};
ghost use Rattle.pe_core.specs.declared.header.TheConstants.{COFF_MACHINE_ARM64, COFF_MACHINE_X86_64, DOS_MAGIC, IMAGE_FILE_DLL, PE_MAGIC, SIZE_OF_DOS_HEADER, SIZE_OF_TE_HEADER, TE_MAGIC};
ghost use Rattle.pe_core.specs.declared.optional_header.TheConstants.{MAGIC_32, MAGIC_64};
ghost use Rattle.pe_core.specs.declared.symbol.TheConstants.{SIZE_OF_SYMBOL};

/// The range of no bytes.
pub fn constants_of_ranges()
    ensures { EMPTY ≡ empty_range }
{}

/// Magic numbers and sizes of headers, the machines that have exception data, the flag of a DLL, and the size of a
/// symbol.
pub fn constants_of_headers()
    ensures dos_magic { DOS_MAGIC ≡ 0x5A4D }
    ensures pe_magic { PE_MAGIC ≡ 0x4550 }
    ensures dos_header { SIZE_OF_DOS_HEADER ≡ 64 }
    ensures te_magic { TE_MAGIC ≡ 0x5A56 }
    ensures te_header { SIZE_OF_TE_HEADER ≡ 40 }
    ensures magic_32 { MAGIC_32 ≡ 0x10B }
    ensures magic_64 { MAGIC_64 ≡ 0x20B }
    ensures most_directories { MOST_DIRECTORIES ≡ 16 }
    ensures x64 { COFF_MACHINE_X86_64 ≡ 0x8664 }
    ensures arm64 { COFF_MACHINE_ARM64 ≡ 0xAA64 }
    ensures dll { IMAGE_FILE_DLL ≡ 0x2000 }
    ensures symbol { SIZE_OF_SYMBOL ≡ 18 }
{}
