//! The debug directory: a table of entries of 28 bytes (`IMAGE_DEBUG_DIRECTORY`), each with the type of a record and
//! where it stands: CodeView (the PDB file), VC feature, extended DLL characteristics, Repro, POGO. A caller parses it
//! by `DebugData`, which reads the record of the first entry of each of these types. See
//! [the PE format](https://learn.microsoft.com/windows/win32/debug/pe-format).

mod codeview;
mod constants;
mod first_entries;
mod managed;
mod pogo;
mod records;

ghost use Rattle.std.specs.Prelude.{◌≡◌, ◌+◌, ◌*◌, ◌/◌, ◌≤◌, ◌==◌, length, map, Some, IfSome, IfOk};
ghost use Rattle.std.specs.List.{find, range_with_len};
ghost use Rattle.std.specs.Iterator.{at_most, UpTo};
ghost use Rattle.std.specs.Iterator.SizeHint.{IsWithinCount};
ghost use Rattle.std.specs.Option.{option_map};
ghost use Rattle.pe_core.specs.Refusals.{Returns, ReturnsAs};
ghost use Rattle.pe_core.specs.Options.{default_options};
ghost use Rattle.pe_core.specs.Offsets.{IsWithin};
ghost use Rattle.pe_core.specs.TeImages.{reduced};
ghost use Rattle.pe_records.specs.DebugDirectory.{debug_entry_at, directory_range, directory_table, ReturnsEntry, debug_bytes_left, fixup_of, debug_entry_count, first_of_type};
ghost use Rattle.pe_records.specs.DebugRecords.{debug_data, debug_view, record_offset, records, debug_table_of, fixup_of_data, of_entry, some_of_entry, pdb70_view, pdb70_of, pdb20_view, pdb20_of, features_of, characteristics_of, repro_view, repro_of, pogo_view, pogo_of};

pub use codeview::{CodeviewPDB20DebugInfo, CodeviewPDB70DebugInfo};
pub use constants::{
    CODEVIEW_CV41_MAGIC, CODEVIEW_CV50_MAGIC, CODEVIEW_PDB20_MAGIC, CODEVIEW_PDB70_MAGIC,
    IMAGE_DEBUG_DIRECTORY_SIZE, IMAGE_DEBUG_POGO_SIGNATURE_LTCG, IMAGE_DEBUG_POGO_SIGNATURE_PGU,
    IMAGE_DEBUG_TYPE_BBT, IMAGE_DEBUG_TYPE_BORLAND, IMAGE_DEBUG_TYPE_CLSID,
    IMAGE_DEBUG_TYPE_CODEVIEW, IMAGE_DEBUG_TYPE_COFF, IMAGE_DEBUG_TYPE_EMBEDDEDPORTABLEPDB,
    IMAGE_DEBUG_TYPE_EX_DLLCHARACTERISTICS, IMAGE_DEBUG_TYPE_EXCEPTION, IMAGE_DEBUG_TYPE_FIXUP,
    IMAGE_DEBUG_TYPE_FPO, IMAGE_DEBUG_TYPE_ILTCG, IMAGE_DEBUG_TYPE_MISC, IMAGE_DEBUG_TYPE_MPX,
    IMAGE_DEBUG_TYPE_OMAP_FROM_SRC, IMAGE_DEBUG_TYPE_OMAP_TO_SRC, IMAGE_DEBUG_TYPE_PDBCHECKSUM,
    IMAGE_DEBUG_TYPE_PERFMAP, IMAGE_DEBUG_TYPE_POGO, IMAGE_DEBUG_TYPE_REPRO,
    IMAGE_DEBUG_TYPE_RESERVED10, IMAGE_DEBUG_TYPE_SPGO, IMAGE_DEBUG_TYPE_UNKNOWN,
    IMAGE_DEBUG_TYPE_VC_FEATURE, IMAGE_DLLCHARACTERISTICS_EX_CET_COMPAT,
    IMAGE_DLLCHARACTERISTICS_EX_CET_COMPAT_STRICT_MODE,
    IMAGE_DLLCHARACTERISTICS_EX_CET_DYNAMIC_APIS_ALLOW_IN_PROC_ONLY,
    IMAGE_DLLCHARACTERISTICS_EX_CET_RESERVED_1, IMAGE_DLLCHARACTERISTICS_EX_CET_RESERVED_2,
    IMAGE_DLLCHARACTERISTICS_EX_CET_SET_CONTEXT_IP_VALIDATION_RELAXED_MODE,
    IMAGE_DLLCHARACTERISTICS_EX_FORWARD_CFI_COMPAT,
    IMAGE_DLLCHARACTERISTICS_EX_HOTPATCH_COMPATIBLE, POGO_SIGNATURE_SIZE,
};
pub use first_entries::FirstDebugEntries;
pub use managed::{EMBEDDED_PDB_MAGIC, EmbeddedPdb, PdbChecksum};
use pe_core::{
    ByteRange, DataDirectory, Error, ParseMode, ParseOptions, Reason, Result, SectionTable,
    mapped_offset, read_u16, read_u32, require_bytes, split_entry,
};
pub use pogo::{POGOEntryIterator, POGOInfo, POGOInfoEntry};
pub use records::{ExDllCharacteristicsInfo, ReproInfo, VCFeatureInfo};

/// An entry of the debug directory, 28 bytes: the type of a record, and where it stands (`IMAGE_DEBUG_DIRECTORY`).
#[repr(C)]
#[derive(Clone, Copy, Debug, Default, PartialEq)]
pub struct ImageDebugDirectory {
    /// Reserved.
    pub characteristics: u32,
    /// A time stamp in seconds since the start of 1970, or a hash.
    pub time_date_stamp: u32,
    /// The major version of the format of the record.
    pub major_version: u16,
    /// The minor version of the format of the record.
    pub minor_version: u16,
    /// The type of the record: one of the constants `IMAGE_DEBUG_TYPE_*`.
    pub data_type: u32,
    /// The size of the record in bytes.
    pub size_of_data: u32,
    /// The RVA of the record.
    pub address_of_raw_data: u32,
    /// The file offset of the record.
    pub pointer_to_raw_data: u32,
}

/// The address less the fixup.
fn reduced(address: u32, fixup: u32) -> u32
    ensures { result ≡ reduced fixup address }
{
    address.wrapping_sub(fixup)
}

impl ImageDebugDirectory {
    /// The entry at an offset in the bytes that is known to have 28 bytes. `fixup` is subtracted from its RVA and its
    /// file offset, modulo 2^32: 0, or for a TE image `TeHeader::rva_offset`.
    #[tactic(auto, unfolding(crate::specs::DebugDirectory::debug_entry_at))]
    pub fn at(bytes: &[u8], offset: usize, fixup: u32) -> ImageDebugDirectory
        requires { offset + 28 ≤ length bytes.now }
        ensures { result ≡ debug_entry_at fixup bytes.now offset }
    {
        ImageDebugDirectory {
            characteristics: read_u32(bytes, offset),
            time_date_stamp: read_u32(bytes, offset + 4),
            major_version: read_u16(bytes, offset + 8),
            minor_version: read_u16(bytes, offset + 10),
            data_type: read_u32(bytes, offset + 12),
            size_of_data: read_u32(bytes, offset + 16),
            address_of_raw_data: reduced(read_u32(bytes, offset + 20), fixup),
            pointer_to_raw_data: reduced(read_u32(bytes, offset + 24), fixup),
        }
    }

    /// The file offset of the entry's record: `pointer_to_raw_data` with `resolve_rva`, else `address_of_raw_data`, as
    /// in images whose RVAs are file offsets.
    pub fn record_offset(&self, opts: &ParseOptions) -> u32
        ensures { result ≡ record_offset opts.now.resolve_rva self.now }
    {
        if opts.resolve_rva {
            self.pointer_to_raw_data
        } else {
            self.address_of_raw_data
        }
    }
}

/// The first whole entry of the type, in the order of the table.
fn find_entry(bytes: &[u8], fixup: u32, data_type: u32) -> Option<ImageDebugDirectory>
    ensures { result ≡ find (λ e. e.data_type == data_type) (map
        (λ i. debug_entry_at fixup bytes.now (28 * i)) (range_with_len 0 (length bytes.now / 28))) }
{
    let whole = bytes.len() / IMAGE_DEBUG_DIRECTORY_SIZE;
    (0..whole)
        .map(
            |i|
                requires { 28 * i + 28 ≤ length bytes.now }
            { ImageDebugDirectory::at(bytes, IMAGE_DEBUG_DIRECTORY_SIZE * i, fixup) },
        )
        .find(|entry| entry.data_type == data_type)
}

/// The entries that are left of a debug directory. A truncated last entry is one item, `Short`.
#[derive(Clone, Copy, Debug)]
pub struct ImageDebugDirectoryIterator<'a> {
    bytes: &'a [u8],
    rva_offset: u32,
}

impl<'a> ImageDebugDirectoryIterator<'a> {
    /// The entries of these bytes, 28 bytes each. `rva_offset`, the fixup, is subtracted from the RVA and the file
    /// offset of each record, modulo 2^32: pass 0, or for a TE image `TeHeader::rva_offset`.
    pub fn new(bytes: &'a [u8], rva_offset: u32) -> Self
        ensures rest { debug_bytes_left result ≡ bytes.entry.now }
        ensures fixup { fixup_of result ≡ rva_offset }
    {
        ImageDebugDirectoryIterator { bytes, rva_offset }
    }

    /// The first whole entry of the type among those that are left.
    #[tactic(auto, using(crate::proofs::EntriesInOrder::whole_as_map))]
    pub fn find_type(&self, data_type: u32) -> Option<ImageDebugDirectory>
        ensures { result ≡ first_of_type (fixup_of self.now) data_type (debug_bytes_left self.now) }
    {
        find_entry(self.bytes, self.rva_offset, data_type)
    }
}

impl<'a> Iterator for ImageDebugDirectoryIterator<'a> {
    type Item = Result<ImageDebugDirectory>;

    ghost next_gives = { λ s r t. ReturnsEntry (fixup_of s)
        (debug_bytes_left s) r (debug_bytes_left t) × (fixup_of t ≡ fixup_of s) };

    ghost remaining = { λ s. at_most (debug_entry_count (debug_bytes_left s)) };

    #[tactic(auto, using(crate::proofs::EntriesInOrder::entries_more, crate::proofs::EntriesInOrder::entries_truncated, crate::proofs::EntriesInOrder::entries_none))]
    fn next(&mut self) -> Option<Result<ImageDebugDirectory>> {
        match split_entry(&mut self.bytes, IMAGE_DEBUG_DIRECTORY_SIZE)? {
            Ok(bytes) => Some(Ok(ImageDebugDirectory::at(bytes, 0, self.rva_offset))),
            Err(error) => Some(Err(error)),
        }
    }

    fn size_hint(&self) -> (usize, Option<usize>)
        ensures lower { IsWithinCount result.0
            (at_most (debug_entry_count (debug_bytes_left self.now))) }
        ensures upper { IfSome result.1
            (UpTo (at_most (debug_entry_count (debug_bytes_left self.now)))) }
        ensures exact { result ≡ (
          debug_entry_count
              (debug_bytes_left self.now),
          Some (debug_entry_count (debug_bytes_left self.now)),
        ) }
    {
        let entries = self.len();
        (entries, Some(entries))
    }
}

impl<'a> ExactSizeIterator for ImageDebugDirectoryIterator<'a> {
    fn len(&self) -> usize {
        self.bytes.len().div_ceil(IMAGE_DEBUG_DIRECTORY_SIZE)
    }
}

/// The bytes of the directory's table.
#[tactic(auto, unfolding(crate::specs::DebugDirectory::directory_table))]
fn table<'a>(
    bytes: &'a [u8],
    directory: DataDirectory,
    sections: &[SectionTable],
    file_alignment: u32,
    opts: &ParseOptions,
) -> Result<&'a [u8]>
    ensures { ReturnsAs (λ s. s.now) result
        (directory_table opts.now bytes.entry.now directory sections.now file_alignment) }
{
    let range = DebugData::table_range(bytes, directory, sections, file_alignment, opts)?;
    Ok(range.of(bytes))
}

/// The debug data of an image: the entries of the debug directory, and the record of the first whole entry of each
/// type that is read here. A field is `None` without such an entry.
#[derive(Clone, Copy, Debug, PartialEq)]
pub struct DebugData<'a> {
    table: &'a [u8],
    rva_offset: u32,
    /// The record of the first CodeView entry, if it is PDB 7.0 (`RSDS`).
    pub codeview_pdb70_debug_info: Option<CodeviewPDB70DebugInfo<'a>>,
    /// The record of the first CodeView entry, if it is PDB 2.0 (`NB10`).
    pub codeview_pdb20_debug_info: Option<CodeviewPDB20DebugInfo<'a>>,
    /// The record of the first VC feature entry.
    pub vcfeature_info: Option<VCFeatureInfo>,
    /// The record of the first entry of extended DLL characteristics.
    pub ex_dll_characteristics_info: Option<ExDllCharacteristicsInfo>,
    /// The record of the first Repro entry.
    pub repro_info: Option<ReproInfo<'a>>,
    /// The record of the first POGO entry, if its signature is `LTCG` or `PGU`.
    pub pogo_info: Option<POGOInfo<'a>>,
}

impl<'a> DebugData<'a> {
    /// Reads the records of a table, in the order in which their errors count.
    #[tactic(auto, unfolding(crate::specs::DebugRecords::records))]
    fn of_table(
        bytes: &'a [u8],
        table: &'a [u8],
        opts: &ParseOptions,
        rva_offset: u32,
    ) -> Result<DebugData<'a>>
        ensures { ReturnsAs debug_view result
            (records opts.now bytes.entry.now rva_offset table.entry.now) }
    {
        let first = FirstDebugEntries::of_table(table, rva_offset);
        Ok(DebugData {
            table,
            rva_offset,
            codeview_pdb70_debug_info: pdb70_of(bytes, first.codeview, opts)?,
            codeview_pdb20_debug_info: pdb20_of(bytes, first.codeview, opts)?,
            vcfeature_info: features_of(bytes, first.features, opts)?,
            ex_dll_characteristics_info: characteristics_of(bytes, first.characteristics, opts)?,
            repro_info: repro_of(bytes, first.repro, opts)?,
            pogo_info: pogo_of(bytes, first.pogo, opts)?,
        })
    }

    /// The range of the directory's table in the file.
    ///
    /// Errors, in this order: `Unmapped` if its RVA is not mapped; `DebugBounds` if it passes the end of the file.
    /// Permissive mode returns no `DebugBounds`, but truncates the table at the end of the file.
    #[tactic(auto, unfolding(crate::specs::DebugDirectory::directory_range))]
    pub fn table_range(
        bytes: &[u8],
        directory: DataDirectory,
        sections: &[SectionTable],
        file_alignment: u32,
        opts: &ParseOptions,
    ) -> Result<ByteRange>
        ensures range { Returns result
            (directory_range opts.now bytes.now directory sections.now file_alignment) }
        ensures within { IfOk result (IsWithin bytes.now) }
    {
        let offset = mapped_offset(directory.virtual_address, sections, file_alignment, opts)?;
        let size = directory.size as usize;
        match (require_bytes(bytes, offset, size), opts.parse_mode) {
            (Ok(()), _) => Ok(ByteRange {
                offset,
                length: size,
            }),
            (Err(_), ParseMode::Strict) => {
                let end = offset.saturating_add(size) as u64;
                Err(Error::Malformed(Reason::DebugBounds(end)))
            }
            (Err(_), ParseMode::Permissive) => {
                let start = offset.min(bytes.len());
                Ok(ByteRange {
                    offset: start,
                    length: bytes.len() - start,
                })
            }
        }
    }

    /// Parses the debug data of a directory with the default options and no fixup. Errors: those of
    /// `parse_with_opts_and_fixup`.
    pub fn parse(
        bytes: &'a [u8],
        directory: DataDirectory,
        sections: &[SectionTable],
        file_alignment: u32,
    ) -> Result<DebugData<'a>>
        ensures { ReturnsAs debug_view result
            (debug_data default_options bytes.entry.now directory sections.now file_alignment 0) }
    {
        DebugData::parse_with_opts(
            bytes,
            directory,
            sections,
            file_alignment,
            &ParseOptions::default(),
        )
    }

    /// Parses the debug data of a directory with no fixup. Errors: those of `parse_with_opts_and_fixup`.
    pub fn parse_with_opts(
        bytes: &'a [u8],
        directory: DataDirectory,
        sections: &[SectionTable],
        file_alignment: u32,
        opts: &ParseOptions,
    ) -> Result<DebugData<'a>>
        ensures { ReturnsAs debug_view result
            (debug_data opts.now bytes.entry.now directory sections.now file_alignment 0) }
    {
        DebugData::parse_with_opts_and_fixup(bytes, directory, sections, file_alignment, opts, 0)
    }

    /// Parses the debug data of a directory. `bytes` is the whole file. `rva_offset`, the fixup, is subtracted from
    /// the RVA and the file offset in each entry, modulo 2^32: pass 0, or for a TE image `TeHeader::rva_offset`.
    ///
    /// Errors, in this order: `Unmapped` if the directory's RVA is not mapped; `DebugBounds` if the table passes the
    /// end of the file, which permissive mode truncates there instead; then those of the records, in the order PDB
    /// 7.0, PDB 2.0, VC feature, extended DLL characteristics, Repro, POGO.
    #[tactic(auto, unfolding(crate::specs::DebugRecords::debug_data))]
    pub fn parse_with_opts_and_fixup(
        bytes: &'a [u8],
        directory: DataDirectory,
        sections: &[SectionTable],
        file_alignment: u32,
        opts: &ParseOptions,
        rva_offset: u32,
    ) -> Result<DebugData<'a>>
        ensures { ReturnsAs debug_view result
            (debug_data opts.now bytes.entry.now directory sections.now file_alignment rva_offset) }
    {
        let table = table(bytes, directory, sections, file_alignment, opts)?;
        DebugData::of_table(bytes, table, opts, rva_offset)
    }

    /// The GUID of the PDB 7.0 record, by which a symbol server finds the symbols. `None` without such a record.
    pub fn guid(&self) -> Option<[u8; 16]>
        ensures { result ≡ option_map (λ r. r.signature) self.now.codeview_pdb70_debug_info }
    {
        let record = self.codeview_pdb70_debug_info?;
        Some(record.signature)
    }

    /// The first whole entry of the type, one of `IMAGE_DEBUG_TYPE_*`.
    pub fn find_type(&self, data_type: u32) -> Option<ImageDebugDirectory>
        ensures { result ≡ first_of_type
            (fixup_of_data self.now) data_type (debug_table_of self.now) }
    {
        self.entries().find_type(data_type)
    }

    /// The entries of the debug directory.
    pub fn entries(&self) -> ImageDebugDirectoryIterator<'a>
        ensures rest { debug_bytes_left result ≡ debug_table_of self.now }
        ensures fixup { fixup_of result ≡ fixup_of_data self.now }
    {
        ImageDebugDirectoryIterator::new(self.table, self.rva_offset)
    }
}

impl<'a> Default for DebugData<'a> {
    ghost use Rattle.pe_records.specs.DebugRecords.{no_debug_data};

    ghost is_default = { λ d. debug_view d ≡ no_debug_data };

    /// Debug data without entries.
    fn default() -> DebugData<'a> {
        DebugData {
            table: &[],
            rva_offset: 0,
            codeview_pdb70_debug_info: None,
            codeview_pdb20_debug_info: None,
            vcfeature_info: None,
            ex_dll_characteristics_info: None,
            repro_info: None,
            pogo_info: None,
        }
    }
}

/// The PDB 7.0 record of the CodeView entry, if there is one.
fn pdb70_of<'a>(
    bytes: &'a [u8],
    entry: Option<ImageDebugDirectory>,
    opts: &ParseOptions,
) -> Result<Option<CodeviewPDB70DebugInfo<'a>>>
    ensures { ReturnsAs
        (option_map pdb70_view) result (of_entry (pdb70_of opts.now bytes.entry.now) entry) }
{
    match entry {
        Some(entry) => CodeviewPDB70DebugInfo::parse_with_opts(bytes, &entry, opts),
        None => Ok(None),
    }
}

/// The PDB 2.0 record of the CodeView entry, if there is one.
fn pdb20_of<'a>(
    bytes: &'a [u8],
    entry: Option<ImageDebugDirectory>,
    opts: &ParseOptions,
) -> Result<Option<CodeviewPDB20DebugInfo<'a>>>
    ensures { ReturnsAs
        (option_map pdb20_view) result (of_entry (pdb20_of opts.now bytes.entry.now) entry) }
{
    match entry {
        Some(entry) => CodeviewPDB20DebugInfo::parse_with_opts(bytes, &entry, opts),
        None => Ok(None),
    }
}

/// The record of the VC feature entry, if there is one.
fn features_of(
    bytes: &[u8],
    entry: Option<ImageDebugDirectory>,
    opts: &ParseOptions,
) -> Result<Option<VCFeatureInfo>>
    ensures { Returns result (some_of_entry (features_of opts.now bytes.now) entry) }
{
    match entry {
        Some(entry) => Ok(Some(VCFeatureInfo::parse_with_opts(bytes, &entry, opts)?)),
        None => Ok(None),
    }
}

/// The record of the entry of extended DLL characteristics, if there is one.
fn characteristics_of(
    bytes: &[u8],
    entry: Option<ImageDebugDirectory>,
    opts: &ParseOptions,
) -> Result<Option<ExDllCharacteristicsInfo>>
    ensures { Returns result (some_of_entry (characteristics_of opts.now bytes.now) entry) }
{
    match entry {
        Some(entry) => Ok(Some(ExDllCharacteristicsInfo::parse_with_opts(bytes, &entry, opts)?)),
        None => Ok(None),
    }
}

/// The record of the Repro entry, if there is one.
fn repro_of<'a>(
    bytes: &'a [u8],
    entry: Option<ImageDebugDirectory>,
    opts: &ParseOptions,
) -> Result<Option<ReproInfo<'a>>>
    ensures { ReturnsAs
        (option_map repro_view) result (some_of_entry (repro_of opts.now bytes.entry.now) entry) }
{
    match entry {
        Some(entry) => Ok(Some(ReproInfo::parse_with_opts(bytes, &entry, opts)?)),
        None => Ok(None),
    }
}

/// The record of the POGO entry, if there is one.
fn pogo_of<'a>(
    bytes: &'a [u8],
    entry: Option<ImageDebugDirectory>,
    opts: &ParseOptions,
) -> Result<Option<POGOInfo<'a>>>
    ensures { ReturnsAs
        (option_map pogo_view) result (of_entry (pogo_of opts.now bytes.entry.now) entry) }
{
    match entry {
        Some(entry) => POGOInfo::parse_with_opts(bytes, &entry, opts),
        None => Ok(None),
    }
}
