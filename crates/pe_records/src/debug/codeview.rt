//! CodeView records (`IMAGE_DEBUG_TYPE_CODEVIEW`): which PDB file has the symbols of an image, by a GUID or number, an
//! age and a file name. A caller matches them with a PDB, or asks a symbol server by them.

ghost use Rattle.std.specs.Prelude.{◌≡◌, ◌+◌, ◌-◌, ◌≤◌, length};
ghost use Rattle.std.specs.Option.{option_map};
ghost use Rattle.pe_core.specs.Options.{default_options};
ghost use Rattle.pe_core.specs.Refusals.{ReturnsAs};
ghost use Rattle.pe_records.specs.DebugRecords.{pdb70_view, pdb70_of, pdb70_record, pdb20_view, pdb20_of, pdb20_record};

use crate::debug::ImageDebugDirectory;
use crate::debug::constants::{CODEVIEW_PDB20_MAGIC, CODEVIEW_PDB70_MAGIC};
use pe_core::{
    Error, ParseMode, ParseOptions, Reason, Result, data_at, read_u32, require_bytes, u32_at,
};

/// A PDB 7.0 record: 24 bytes and a file name.
#[derive(Clone, Copy, Debug, Default, PartialEq)]
pub struct CodeviewPDB70DebugInfo<'a> {
    /// `CODEVIEW_PDB70_MAGIC`: 0x53445352, `RSDS`.
    pub codeview_signature: u32,
    /// The GUID by which a symbol server finds the symbols, as it stands in the file.
    pub signature: [u8; 16],
    /// The age: how often the symbols were written since they have this GUID.
    pub age: u32,
    /// The name of the PDB file, with the zeros after it: all bytes up to the end of the record.
    pub filename: &'a [u8],
}

/// A PDB 2.0 record: 16 bytes and a file name.
#[derive(Clone, Copy, Debug, Default, PartialEq)]
pub struct CodeviewPDB20DebugInfo<'a> {
    /// `CODEVIEW_PDB20_MAGIC`: 0x3031424E, `NB10`.
    pub codeview_signature: u32,
    /// The offset of CodeView data, normally 0, since the symbols are in a file of their own.
    pub codeview_offset: u32,
    /// The number by which a symbol server finds the symbols.
    pub signature: u32,
    /// The age: how often the symbols were written since they have this signature.
    pub age: u32,
    /// The name of the PDB file, with the zeros after it: all bytes up to the end of the record.
    pub filename: &'a [u8],
}

impl<'a> CodeviewPDB70DebugInfo<'a> {
    /// The PDB 7.0 record at a file offset, in `size` bytes. A record with another signature is `None`, even if the
    /// rest is truncated.
    #[tactic(auto, unfolding(crate::specs::DebugRecords::pdb70_record, crate::specs::DebugRecords::pdb70_at))]
    fn at(bytes: &'a [u8], offset: usize, size: u32, mode: ParseMode) -> Result<Option<Self>>
        ensures { ReturnsAs
            (option_map pdb70_view) result (pdb70_record mode bytes.entry.now offset size) }
    {
        if size < 24 {
            return mode.none_if_refused(Err(Error::Malformed(Reason::DebugSize(size))));
        }
        let codeview_signature = u32_at(bytes, offset)?;
        if codeview_signature != CODEVIEW_PDB70_MAGIC {
            return Ok(None);
        }
        require_bytes(bytes, offset + 4, 20)?;
        let length = size as usize - 24;
        let filename = data_at(bytes, offset + 24, length, Reason::DebugData(size))?;
        let mut signature = [0; 16];
        signature.copy_from_slice(&bytes[offset + 4..offset + 20]);
        Ok(Some(CodeviewPDB70DebugInfo {
            codeview_signature,
            signature,
            age: read_u32(bytes, offset + 20),
            filename,
        }))
    }

    /// The PDB 7.0 record of the entry, with the default options. Errors: those of `parse_with_opts`.
    pub fn parse(bytes: &'a [u8], idd: &ImageDebugDirectory) -> Result<Option<Self>>
        ensures { ReturnsAs
            (option_map pdb70_view) result (pdb70_of default_options bytes.entry.now idd.now) }
    {
        CodeviewPDB70DebugInfo::parse_with_opts(bytes, idd, &ParseOptions::default())
    }

    /// The PDB 7.0 record of the entry. `None` if the record has another signature. `bytes` is the whole file.
    ///
    /// Errors, in this order: `DebugSize` if the entry's size is below 24, which is `None` in permissive mode; `Short`
    /// if the first 24 bytes are not in the file; `DebugData` if the file name is not.
    pub fn parse_with_opts(
        bytes: &'a [u8],
        idd: &ImageDebugDirectory,
        opts: &ParseOptions,
    ) -> Result<Option<Self>>
        ensures { ReturnsAs
            (option_map pdb70_view) result (pdb70_of opts.now bytes.entry.now idd.now) }
    {
        let offset = idd.record_offset(opts);
        CodeviewPDB70DebugInfo::at(bytes, offset as usize, idd.size_of_data, opts.parse_mode)
    }
}

impl<'a> CodeviewPDB20DebugInfo<'a> {
    /// The PDB 2.0 record at a file offset, in `size` bytes. A record with another signature is `None`, even if the
    /// rest is truncated.
    #[tactic(auto, unfolding(crate::specs::DebugRecords::pdb20_record, crate::specs::DebugRecords::pdb20_at))]
    fn at(bytes: &'a [u8], offset: usize, size: u32, mode: ParseMode) -> Result<Option<Self>>
        ensures { ReturnsAs
            (option_map pdb20_view) result (pdb20_record mode bytes.entry.now offset size) }
    {
        if size < 16 {
            return mode.none_if_refused(Err(Error::Malformed(Reason::DebugSize(size))));
        }
        let codeview_signature = u32_at(bytes, offset)?;
        if codeview_signature != CODEVIEW_PDB20_MAGIC {
            return Ok(None);
        }
        require_bytes(bytes, offset + 4, 12)?;
        let length = size as usize - 16;
        let filename = data_at(bytes, offset + 16, length, Reason::DebugData(size))?;
        Ok(Some(CodeviewPDB20DebugInfo {
            codeview_signature,
            codeview_offset: read_u32(bytes, offset + 4),
            signature: read_u32(bytes, offset + 8),
            age: read_u32(bytes, offset + 12),
            filename,
        }))
    }

    /// The PDB 2.0 record of the entry, with the default options. Errors: those of `parse_with_opts`.
    pub fn parse(bytes: &'a [u8], idd: &ImageDebugDirectory) -> Result<Option<Self>>
        ensures { ReturnsAs
            (option_map pdb20_view) result (pdb20_of default_options bytes.entry.now idd.now) }
    {
        CodeviewPDB20DebugInfo::parse_with_opts(bytes, idd, &ParseOptions::default())
    }

    /// The PDB 2.0 record of the entry. `None` if the record has another signature. `bytes` is the whole file.
    ///
    /// Errors, in this order: `DebugSize` if the entry's size is below 16, which is `None` in permissive mode; `Short`
    /// if the first 16 bytes are not in the file; `DebugData` if the file name is not.
    pub fn parse_with_opts(
        bytes: &'a [u8],
        idd: &ImageDebugDirectory,
        opts: &ParseOptions,
    ) -> Result<Option<Self>>
        ensures { ReturnsAs
            (option_map pdb20_view) result (pdb20_of opts.now bytes.entry.now idd.now) }
    {
        let offset = idd.record_offset(opts);
        CodeviewPDB20DebugInfo::at(bytes, offset as usize, idd.size_of_data, opts.parse_mode)
    }
}
