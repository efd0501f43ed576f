//! The [DBI stream](https://llvm.org/docs/PDB/DbiStream.html), stream 3: what the linker knows of the image. A header of 64 bytes
//! says which streams have the symbols, and how many bytes each of the parts has that follow it: the modules that were linked,
//! which module has which code, the sections, the source files, and the streams that have tables of the image (`debug_stream`).
//!
//! The part that stands last in the header, names for edit and continue, comes before the part that stands before it.

ghost use Rattle.std.specs.Prelude.{◌≡◌, ◌+◌, ◌≤◌, ◌^◌, ◌<◌, IfOk, length};
ghost use Rattle.pe_core.specs.Bytes.{range};
ghost use Rattle.pe_pdb.specs.Dbi.{dbi_header, dbi_header_of, dbi_of, dbi_parts, dbi_view, debug_start, debug_stream, size_of_parts};
ghost use Rattle.pe_pdb.specs.Refusals.{PdbReturns};

use crate::error::{PdbError, Result, require_bytes};
use pe_core::{read_u16, read_u32};

/// The index of the DBI stream.
pub const DBI_STREAM: u32 = 3;

/// The size of the header in bytes.
const SIZE_OF_HEADER: usize = 64;

/// What the stream starts with, -1.
const SIGNATURE: u32 = 0xFFFF_FFFF;

/// The least version that is read, that of Visual C++ 7.
const VERSION: u32 = 19990903;

/// The number of no stream.
pub const NO_STREAM: u16 = 0xFFFF;

/// The table of frame data of x86 (`FPO_DATA`), for `Dbi::debug_stream`.
pub const DEBUG_FPO: usize = 0;

/// Where an RVA is in the image before a tool moved its code, for `Dbi::debug_stream`.
pub const DEBUG_OMAP_TO_SOURCE: usize = 3;

/// Where an RVA of that image is now.
pub const DEBUG_OMAP_FROM_SOURCE: usize = 4;

/// The section headers of the image.
pub const DEBUG_SECTION_HEADERS: usize = 5;

/// The section headers of the image before a tool moved its code.
pub const DEBUG_ORIGINAL_SECTION_HEADERS: usize = 10;

/// The header of the DBI stream. Sizes are in bytes.
#[repr(C)]
#[derive(Clone, Copy)]
pub struct DbiHeader {
    /// The version of the stream's layout, 19990903 in what linkers write.
    pub version: u32,
    /// The age that the image has of its PDB: how often both were linked.
    pub age: u32,
    /// The stream with the hash table of global symbols, or `NO_STREAM`.
    pub global_stream: u16,
    /// The version of the linker.
    pub build: u16,
    /// The stream with the hash table of public symbols, or `NO_STREAM`.
    pub public_stream: u16,
    /// The version of the DLL that wrote the PDB, mspdb.
    pub dll_version: u16,
    /// The stream with the records of public and global symbols, or `NO_STREAM`.
    pub symbol_stream: u16,
    /// The build of that DLL.
    pub dll_build: u16,
    /// The size of the modules.
    pub modules_size: u32,
    /// The size of the section contributions: which module has which code.
    pub contributions_size: u32,
    /// The size of the section map.
    pub section_map_size: u32,
    /// The size of the source files.
    pub source_info_size: u32,
    /// The size of the map of type servers.
    pub type_servers_size: u32,
    /// The index of MFC's type server.
    pub mfc_index: u32,
    /// The size of the streams of debug data.
    pub debug_header_size: u32,
    /// The size of the names for edit and continue.
    pub edit_names_size: u32,
    /// Bit 0: linked incrementally; bit 1: private symbols are stripped; bit 2: has types that contradict one another.
    pub flags: u16,
    /// The machine of the image, `IMAGE_FILE_MACHINE_*` of winnt.h.
    pub machine: u16,
}

/// The DBI stream: its header, and the bytes of the parts that follow it, in their order.
#[derive(Clone, Copy)]
pub struct Dbi<'a> {
    pub header: DbiHeader,
    /// The modules that were linked, of objects and of libraries.
    pub modules: &'a [u8],
    /// Which module has which code.
    pub contributions: &'a [u8],
    pub section_map: &'a [u8],
    /// The source files of the modules.
    pub source_info: &'a [u8],
    pub type_servers: &'a [u8],
    /// Names for edit and continue.
    pub edit_names: &'a [u8],
    /// Streams with tables of the image, numbers of 2 bytes.
    pub debug_header: &'a [u8],
}

impl DbiHeader {
    /// The header at the start of the bytes, whose 64 bytes the caller knows to be there.
    #[tactic(auto, unfolding(crate::specs::Dbi::dbi_header))]
    fn at(bytes: &[u8]) -> DbiHeader
        requires { 64 ≤ length bytes.now }
        ensures { result ≡ dbi_header bytes.now }
    {
        DbiHeader {
            version: read_u32(bytes, 4),
            age: read_u32(bytes, 8),
            global_stream: read_u16(bytes, 12),
            build: read_u16(bytes, 14),
            public_stream: read_u16(bytes, 16),
            dll_version: read_u16(bytes, 18),
            symbol_stream: read_u16(bytes, 20),
            dll_build: read_u16(bytes, 22),
            modules_size: read_u32(bytes, 24),
            contributions_size: read_u32(bytes, 28),
            section_map_size: read_u32(bytes, 32),
            source_info_size: read_u32(bytes, 36),
            type_servers_size: read_u32(bytes, 40),
            mfc_index: read_u32(bytes, 44),
            debug_header_size: read_u32(bytes, 48),
            edit_names_size: read_u32(bytes, 52),
            flags: read_u16(bytes, 56),
            machine: read_u16(bytes, 58),
        }
    }

    /// The header of a stream of so many bytes that starts with these. Errors, in order: `Short` if these are fewer than 64;
    /// `DbiSignature`; `DbiVersion`; `DbiParts`.
    pub fn parse(head: &[u8], length: usize) -> Result<DbiHeader>
        ensures value { PdbReturns (λ h. h) result (dbi_header_of head.now length) }
        ensures inside { IfOk result (λ h. 64 + size_of_parts h ≤ length) }
    {
        require_bytes(head, 0, SIZE_OF_HEADER)?;
        let signature = read_u32(head, 0);
        if signature != SIGNATURE {
            return Err(PdbError::DbiSignature(signature));
        }
        let version = read_u32(head, 4);
        if version < VERSION {
            return Err(PdbError::DbiVersion(version));
        }
        let header = DbiHeader::at(head);
        let needed = SIZE_OF_HEADER + header.size_of_parts();
        if length < needed {
            return Err(PdbError::DbiParts { needed, length });
        }
        Ok(header)
    }

    /// Where the numbers of the streams of debug data start in the stream. They are its last part.
    pub fn debug_start(&self) -> usize
        ensures { result ≡ debug_start self.now }
    {
        SIZE_OF_HEADER + (self.size_of_parts() - self.debug_header_size as usize)
    }

    /// How many bytes its parts have.
    fn size_of_parts(&self) -> usize
        ensures value { result ≡ size_of_parts self.now }
        ensures fits { result < 2 ^ 35 }
    {
        self.modules_size as usize
            + self.contributions_size as usize
            + self.section_map_size as usize
            + self.source_info_size as usize
            + self.type_servers_size as usize
            + self.edit_names_size as usize
            + self.debug_header_size as usize
    }
}

/// The bytes of a part, and where it ends.
fn part(bytes: &[u8], start: usize, size: u32) -> (&[u8], usize)
    requires { start + size ≤ length bytes.now }
    ensures bytes { result.0.now ≡ range bytes.now start size }
    ensures end { result.1 ≡ start + size }
{
    let end = start + size as usize;
    (&bytes[start..end], end)
}

impl<'a> Dbi<'a> {
    /// The parts that follow a header.
    fn with_header(bytes: &'a [u8], header: DbiHeader) -> Dbi<'a>
        requires { 64 + size_of_parts header ≤ length bytes.now }
        ensures { dbi_view result ≡ dbi_parts bytes.entry.now header }
    {
        let (modules, end) = part(bytes, SIZE_OF_HEADER, header.modules_size);
        let (contributions, end) = part(bytes, end, header.contributions_size);
        let (section_map, end) = part(bytes, end, header.section_map_size);
        let (source_info, end) = part(bytes, end, header.source_info_size);
        let (type_servers, end) = part(bytes, end, header.type_servers_size);
        let (edit_names, end) = part(bytes, end, header.edit_names_size);
        let (debug_header, _) = part(bytes, end, header.debug_header_size);
        Dbi {
            header,
            modules,
            contributions,
            section_map,
            source_info,
            type_servers,
            edit_names,
            debug_header,
        }
    }

    /// The stream that has these bytes. Errors, in order: `Short` if there are fewer than 64; `DbiSignature`; `DbiVersion`;
    /// `DbiParts`.
    pub fn parse(bytes: &'a [u8]) -> Result<Dbi<'a>>
        ensures { PdbReturns dbi_view result (dbi_of bytes.entry.now) }
    {
        let header = DbiHeader::parse(bytes, bytes.len())?;
        Ok(Dbi::with_header(bytes, header))
    }

    /// The stream with a table of the image, by `DEBUG_*`. `None` where the PDB has none.
    pub fn debug_stream(&self, table: usize) -> Option<u16>
        ensures { result ≡ debug_stream self.now.debug_header.now table }
    {
        debug_stream(self.debug_header, table)
    }
}

/// The same, of the numbers of these streams.
#[tactic(auto, unfolding(crate::specs::Dbi::debug_stream))]
pub fn debug_stream(numbers: &[u8], table: usize) -> Option<u16>
    ensures { result ≡ debug_stream numbers.now table }
{
    if table >= numbers.len() / 2 {
        return None;
    }
    let stream = read_u16(numbers, 2 * table);
    if stream == NO_STREAM {
        return None;
    }
    Some(stream)
}
