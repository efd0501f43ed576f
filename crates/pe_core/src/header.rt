//! The headers of an image: DOS header, PE signature, COFF header and optional header
//! ([layout](https://learn.microsoft.com/windows/win32/debug/pe-format#ms-dos-stub-image-only)), and the header of a TE
//! image. A caller parses a `Header` first; it says where the section headers are, and its data directories where the
//! tables are.

ghost use Rattle.std.specs.Prelude.{◌≡◌, ◌+◌, ◌≤◌, length};
ghost use Rattle.pe_core.specs.Bytes.{record_at};
ghost use Rattle.pe_core.specs.Refusals.{Returns, ReturnsAs};
ghost use Rattle.pe_core.specs.TeImages.{reduced};

use crate::bytes::{read_u8, read_u16, read_u32, read_u64, require_bytes, u32_at};
use crate::data_directories::DataDirectory;
use crate::error::{Error, Reason, Result};
use crate::optional_header::OptionalHeader;
use crate::options::{ParseMode, ParseOptions};

/// The signature of a DOS header: `MZ`.
pub const DOS_MAGIC: u16 = 0x5A4D;

/// The signature before a COFF header: `PE` and two zero bytes.
pub const PE_MAGIC: u32 = 0x4550;

/// The size of a DOS header in bytes.
pub const SIZE_OF_DOS_HEADER: u32 = 64;

/// The signature of a TE image: `VZ`.
pub const TE_MAGIC: u16 = 0x5A56;

/// The size of the header of a TE image in bytes.
pub const SIZE_OF_TE_HEADER: u16 = 40;

/// x64, in `machine` of the COFF header: `IMAGE_FILE_MACHINE_AMD64`.
pub const COFF_MACHINE_X86_64: u16 = 0x8664;

/// ARM64, in `machine` of the COFF header: `IMAGE_FILE_MACHINE_ARM64`.
pub const COFF_MACHINE_ARM64: u16 = 0xAA64;

/// The flag of a DLL in `characteristics` of the COFF header.
pub const IMAGE_FILE_DLL: u16 = 0x2000;

/// The size of the PE signature in bytes.
pub(crate) const SIZE_OF_PE_SIGNATURE: usize = 4;

/// The size of a COFF header in bytes.
pub(crate) const SIZE_OF_COFF_HEADER: usize = 20;

/// The DOS header at the start of an image (`IMAGE_DOS_HEADER`), 64 bytes.
#[derive(Clone, Copy, Debug, PartialEq)]
pub struct DosHeader {
    /// `DOS_MAGIC`, if the header was read as part of a `Header`.
    pub signature: u16,
    /// The fields between, which DOS reads and Windows doesn't.
    pub rest: [u8; 58],
    /// The file offset of the PE signature.
    pub pe_pointer: u32,
}

impl DosHeader {
    ghost use Rattle.pe_core.specs.Records.{dos_header};

    /// The DOS header at the start of `bytes`, whatever its signature. Error: `Short`.
    #[tactic(auto, unfolding(crate::specs::Records::dos_header))]
    pub fn parse(bytes: &[u8]) -> Result<DosHeader>
        ensures { Returns result (record_at bytes.now 0 64 (dos_header bytes.now 0)) }
    {
        require_bytes(bytes, 0, 64)?;
        let mut rest = [0; 58];
        rest.copy_from_slice(&bytes[2..60]);
        Ok(DosHeader {
            signature: read_u16(bytes, 0),
            rest,
            pe_pointer: read_u32(bytes, 60),
        })
    }
}

/// The COFF file header (`IMAGE_FILE_HEADER`), 20 bytes.
#[derive(Clone, Copy, Debug, PartialEq)]
pub struct CoffHeader {
    /// The processor, for instance `COFF_MACHINE_X86_64` or `COFF_MACHINE_ARM64`.
    pub machine: u16,
    /// The number of section headers.
    pub number_of_sections: u16,
    /// Seconds since the start of 1970, or a hash.
    pub time_date_stamp: u32,
    /// The file offset of the COFF symbol table. 0 if there is none.
    pub pointer_to_symbol_table: u32,
    /// The number of entries of the COFF symbol table, 18 bytes each, auxiliary records included.
    pub number_of_symbol_table: u32,
    /// The size of the optional header in bytes: it says where the section headers start. 0 if there is no optional
    /// header.
    pub size_of_optional_header: u16,
    /// Flags, `IMAGE_FILE_*` of winnt.h, for instance `IMAGE_FILE_DLL`.
    pub characteristics: u16,
}

impl CoffHeader {
    ghost use Rattle.pe_core.specs.Records.{coff_header};

    /// The COFF header at `offset`. Error: `Short`.
    #[tactic(auto, unfolding(crate::specs::Records::coff_header))]
    pub fn parse(bytes: &[u8], offset: usize) -> Result<CoffHeader>
        ensures { Returns result (record_at bytes.now offset 20 (coff_header bytes.now offset)) }
    {
        require_bytes(bytes, offset, 20)?;
        Ok(CoffHeader {
            machine: read_u16(bytes, offset),
            number_of_sections: read_u16(bytes, offset + 2),
            time_date_stamp: read_u32(bytes, offset + 4),
            pointer_to_symbol_table: read_u32(bytes, offset + 8),
            number_of_symbol_table: read_u32(bytes, offset + 12),
            size_of_optional_header: read_u16(bytes, offset + 16),
            characteristics: read_u16(bytes, offset + 18),
        })
    }
}

/// The header of a TE image, 40 bytes. Firmware drops all other headers and puts this one instead; the RVAs and file
/// offsets in the file still count what was dropped. `TeHeader::parse` corrects those of the header.
#[derive(Clone, Copy, Debug, PartialEq)]
pub struct TeHeader {
    /// `TE_MAGIC`.
    pub signature: u16,
    /// The processor, as in the COFF header.
    pub machine: u16,
    /// The number of section headers.
    pub number_of_sections: u8,
    /// The subsystem, as in the optional header.
    pub subsystem: u8,
    /// The number of bytes of headers that were dropped.
    pub stripped_size: u16,
    /// The RVA of the entry point, reduced by `parse`.
    pub entry_point: u32,
    /// The RVA of the code, reduced by `parse`.
    pub base_of_code: u32,
    /// The preferred virtual address of the first byte of the image.
    pub image_base: u64,
    /// The base relocation directory, its RVA reduced by `parse`.
    pub reloc_dir: DataDirectory,
    /// The debug directory, its RVA reduced by `parse`. RVA and size are 0 if there is none.
    pub debug_dir: DataDirectory,
}

/// `number` less `offset`, modulo 2^32.
pub(crate) fn reduced(number: u32, offset: u32) -> u32
    ensures { result ≡ reduced offset number }
{
    number.wrapping_sub(offset)
}

impl DataDirectory {
    ghost use Rattle.pe_core.specs.TeImages.{reduced_directory, reduced_debug};

    /// The directory with its RVA reduced.
    fn reduced(self, offset: u32) -> DataDirectory
        ensures { result ≡ reduced_directory offset self }
    {
        DataDirectory {
            virtual_address: reduced(self.virtual_address, offset),
            size: self.size,
        }
    }

    /// The directory with its RVA reduced, unless it is absent.
    fn reduced_if_present(self, offset: u32) -> DataDirectory
        ensures { result ≡ reduced_debug offset self }
    {
        if self.virtual_address == 0 && self.size == 0 {
            self
        } else {
            self.reduced(offset)
        }
    }
}

impl TeHeader {
    ghost use Rattle.pe_core.specs.Records.{te_header};
    ghost use Rattle.pe_core.specs.TeImages.{rva_offset, rva_offset_of, reduced_header, te_header_of};

    /// The header at the start of `bytes`, whose 40 bytes the caller knows to be there.
    #[tactic(auto, unfolding(crate::specs::Records::te_header))]
    fn at_start(bytes: &[u8]) -> TeHeader
        requires { 40 ≤ length bytes.now }
        ensures { result ≡ te_header bytes.now 0 }
    {
        TeHeader {
            signature: read_u16(bytes, 0),
            machine: read_u16(bytes, 2),
            number_of_sections: read_u8(bytes, 4),
            subsystem: read_u8(bytes, 5),
            stripped_size: read_u16(bytes, 6),
            entry_point: read_u32(bytes, 8),
            base_of_code: read_u32(bytes, 12),
            image_base: read_u64(bytes, 16),
            reloc_dir: DataDirectory::at(bytes, 24),
            debug_dir: DataDirectory::at(bytes, 32),
        }
    }

    /// The number of dropped bytes beyond the 40 of this header, which `parse` and `sections` subtract from RVAs and
    /// raw pointers. Error: `TeSize` if fewer than 40 bytes were dropped.
    pub fn rva_offset(&self) -> Result<u32>
        ensures { Returns result (rva_offset_of self.now) }
    {
        if self.stripped_size < SIZE_OF_TE_HEADER {
            return Err(Error::Malformed(Reason::TeSize(self.stripped_size)));
        }
        Ok(u32::from(self.stripped_size - SIZE_OF_TE_HEADER))
    }

    /// The header with its RVAs reduced by the offset.
    #[tactic(auto, unfolding(crate::specs::TeImages::reduced_header))]
    fn reduced(self, offset: u32) -> TeHeader
        requires { offset ≡ rva_offset self }
        ensures { result ≡ reduced_header self }
    {
        TeHeader {
            entry_point: reduced(self.entry_point, offset),
            base_of_code: reduced(self.base_of_code, offset),
            reloc_dir: self.reloc_dir.reduced(offset),
            debug_dir: self.debug_dir.reduced_if_present(offset),
            ..self
        }
    }

    /// The header at the start of `bytes`. Its entry point, its base of code and the RVAs of its two directories are
    /// reduced by `rva_offset`, modulo 2^32; a debug directory of two zeros stays so. Errors, in order:
    /// - `Short`: fewer than 40 bytes;
    /// - `BadMagic`: the signature is not `TE_MAGIC`;
    /// - `TeSize`: fewer than 40 bytes were dropped.
    #[tactic(auto, unfolding(crate::specs::TeImages::te_header_of, crate::specs::TeImages::te_tests, crate::specs::Records::te_header))]
    pub fn parse(bytes: &[u8]) -> Result<TeHeader>
        ensures { Returns result (te_header_of bytes.now) }
    {
        require_bytes(bytes, 0, SIZE_OF_TE_HEADER as usize)?;
        let header = TeHeader::at_start(bytes);
        if header.signature != TE_MAGIC {
            return Err(Error::BadMagic(u64::from(header.signature)));
        }
        let offset = header.rva_offset()?;
        Ok(header.reduced(offset))
    }
}

/// All headers of an image before its section headers.
#[derive(Clone, Copy, Debug, PartialEq)]
pub struct Header<'a> {
    /// The DOS header.
    pub dos_header: DosHeader,
    /// The bytes from file offset 64 to the PE signature. Empty if the PE signature starts before 64.
    pub dos_stub: &'a [u8],
    /// `PE_MAGIC`.
    pub signature: u32,
    /// The COFF header, which follows the PE signature.
    pub coff_header: CoffHeader,
    /// `None` if the COFF header says that it has 0 bytes.
    pub optional_header: Option<OptionalHeader>,
}

impl<'a> Header<'a> {
    ghost use Rattle.pe_core.specs.Header.{header_view, header_at};
    ghost use Rattle.pe_core.specs.HeaderSteps.{header_in_steps};

    /// The headers, in the order in which they are read. The contract of `parse_with_opts` lists the tests instead.
    #[tactic(auto, unfolding(crate::specs::HeaderSteps::header_in_steps))]
    fn parse_in_steps(bytes: &'a [u8], opts: &ParseOptions) -> Result<Header<'a>>
        ensures { ReturnsAs header_view result (header_in_steps bytes.now opts.now.parse_mode) }
    {
        let dos_header = DosHeader::parse(bytes)?;
        if dos_header.signature != DOS_MAGIC {
            return Err(Error::BadMagic(u64::from(dos_header.signature)));
        }
        let pointer = dos_header.pe_pointer;
        if pointer < SIZE_OF_DOS_HEADER && opts.parse_mode == ParseMode::Strict {
            return Err(Error::Malformed(Reason::HeaderPointer(pointer)));
        }
        let offset = pointer as usize;
        let signature = u32_at(bytes, offset)?;
        if signature != PE_MAGIC {
            return Err(Error::BadMagic(u64::from(signature)));
        }
        let coff_header = CoffHeader::parse(bytes, offset + 4)?;
        let optional_header = if coff_header.size_of_optional_header == 0 {
            None
        } else {
            Some(OptionalHeader::parse(bytes, offset + 24)?)
        };
        Ok(Header {
            dos_header,
            dos_stub: if offset < 64 { &[] } else { &bytes[64..offset] },
            signature,
            coff_header,
            optional_header,
        })
    }

    /// The headers of the image at the start of `bytes`. Errors, in order:
    /// - `Short`: the DOS header's 64 bytes; `BadMagic`: its signature is not `DOS_MAGIC`;
    /// - `HeaderPointer`: in strict mode, the PE signature's offset is below 64;
    /// - `Short`: the PE signature; `BadMagic`: it is not `PE_MAGIC`;
    /// - `Short`: the COFF header;
    /// - those of `OptionalHeader::parse`, unless the COFF header says that there is no optional header.
    #[tactic(auto, using(crate::proofs::Steps::same))]
    pub fn parse_with_opts(bytes: &'a [u8], opts: &ParseOptions) -> Result<Header<'a>>
        ensures { ReturnsAs header_view result (header_at bytes.now opts.now.parse_mode) }
    {
        Header::parse_in_steps(bytes, opts)
    }
}
