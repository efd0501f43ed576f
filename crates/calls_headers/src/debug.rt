//! Debug data. The debug directory is a table of entries of 28 bytes; each says which type of record it leads to, and
//! where that is. Debuggers get the name and key of an image's PDB file from the CodeView record.
//! https://learn.microsoft.com/windows/win32/debug/pe-format#the-debug-section
//!
//! A record is read of the first entry of its type and of no other: what damages another entry, or the record of another type,
//! makes no difference. `laws::debug` says so over all bytes.

ghost use Rattle.std.specs.Prelude.{◌≡◌, None, IfOk};
ghost use Rattle.pe_core.specs.Offsets.{IsWithin};
ghost use Rattle.pe_core.specs.Refusals.{Returns, ReturnsAs, answer_of};
ghost use Rattle.pe_records.specs.DebugDirectory.{directory_range};
ghost use Rattle.pe_records.specs.DebugRecords.{of_entry};
ghost use Rattle.pe_records.specs.declared.debug.constants.TheConstants.{IMAGE_DEBUG_TYPE_CODEVIEW, IMAGE_DEBUG_TYPE_EMBEDDEDPORTABLEPDB, IMAGE_DEBUG_TYPE_EX_DLLCHARACTERISTICS, IMAGE_DEBUG_TYPE_PDBCHECKSUM, IMAGE_DEBUG_TYPE_POGO, IMAGE_DEBUG_TYPE_REPRO, IMAGE_DEBUG_TYPE_VC_FEATURE};
ghost use Rattle.calls_headers.specs.Debug.{characteristics_of, checksum_of, debug_entries_range, embedded_of, features_of, first_entry, if_of_type, key_of, pdb20_of, pogo_of, read_first, repro_of};
ghost use Rattle.calls_base.specs.HandsOut.{HandsOutIf};
ghost use Rattle.calls_base.specs.Modes.{options_of};
ghost use Rattle.calls_base.specs.Views.{directory_sections, may_map};

pub mod records;
pub mod walks;

use crate::debug::records::{
    EmbeddedPdb, Pdb20, PdbChecksum, Pogo, Repro, SymbolKey, characteristics_of, checksum_of,
    embedded_of, features_of, key_of, pdb20_of, pogo_of, repro_of,
};
use calls_base::image::{DEBUG_TABLE, directory, is_absent};
use calls_base::ranges::{Range, range_of};
use calls_base::results::{DONE, hand_out_some, options};
use calls_base::view::{View, sections_of};
use pe_core::{ByteRange, DataDirectory, Result};
use pe_records::{
    DebugData, FirstDebugEntries, IMAGE_DEBUG_TYPE_CODEVIEW, IMAGE_DEBUG_TYPE_EMBEDDEDPORTABLEPDB,
    IMAGE_DEBUG_TYPE_EX_DLLCHARACTERISTICS, IMAGE_DEBUG_TYPE_PDBCHECKSUM, IMAGE_DEBUG_TYPE_POGO,
    IMAGE_DEBUG_TYPE_REPRO, IMAGE_DEBUG_TYPE_VC_FEATURE, ImageDebugDirectory,
    ImageDebugDirectoryIterator, VCFeatureInfo,
};

/// The range of the entries of a debug directory.
#[inline(always)]
fn entries_at(view: &View, directory: DataDirectory) -> Result<ByteRange>
    ensures range { Returns result (directory_range (options_of view.now.image.now.mode)
        view.now.bytes.now directory (may_map view.now directory.virtual_address)
        view.now.image.now.file_alignment) }
    ensures within { IfOk result (IsWithin view.now.bytes.now) }
{
    let sections = sections_of(view, directory.virtual_address);
    let alignment = view.image.file_alignment;
    let opts = options(view.image.mode);
    DebugData::table_range(view.bytes, directory, sections, alignment, &opts)
}

/// The range of the entries, if the debug directory is not absent.
#[tactic(auto, unfolding(crate::specs::Debug::debug_entries_range))]
pub fn table_of(view: &View) -> Result<Option<Range>>
    ensures { answer_of result
        ≡ debug_entries_range view.now.bytes.now view.now.image.now
        (directory_sections view.now 6) view.now.image.now.mode }
{
    let directory = directory(view.image, DEBUG_TABLE);
    if is_absent(directory) {
        return Ok(None);
    }
    let range = entries_at(view, directory)?;
    Ok(Some(range_of(range)))
}

/// The first entry of a type, if there is one.
#[inline(always)]
#[tactic(auto, unfolding(crate::specs::Debug::first_entry, pe_records::specs::DebugDirectory::directory_table))]
fn first_entry(view: &View, data_type: u32) -> Result<Option<ImageDebugDirectory>>
    ensures { answer_of result ≡ first_entry view.now.bytes.now view.now.image.now
        (directory_sections view.now 6) data_type }
{
    let directory = directory(view.image, DEBUG_TABLE);
    if is_absent(directory) {
        return Ok(None);
    }
    let range = entries_at(view, directory)?;
    Ok(ImageDebugDirectoryIterator::new(range.of(view.bytes), 0).find_type(data_type))
}

/// The symbol key of the first CodeView entry, if there is one.
#[inline(always)]
pub fn first_key(view: &View) -> Result<Option<SymbolKey>>
    ensures { answer_of result ≡ read_first key_of IMAGE_DEBUG_TYPE_CODEVIEW
        view.now.bytes.now view.now.image.now (directory_sections view.now 6) }
{
    let entry = first_entry(view, IMAGE_DEBUG_TYPE_CODEVIEW)?;
    entry.map_or(
        Ok(None),
        |entry| key_of(view.bytes, view.image.mode, &entry),
    )
}

/// Entries whose records are read, each of its own type or none.
#[derive(Drop)]
pub struct TypedEntries {
    /// Those of the types that the port's debug data have.
    first: FirstDebugEntries,
    /// One of an embedded PDB.
    embedded: Option<ImageDebugDirectory>,
    /// One of the checksum of a PDB.
    checksum: Option<ImageDebugDirectory>,
}

/// No entry of any type.
fn no_entries() -> FirstDebugEntries
    ensures codeview { result.codeview ≡ None }
    ensures features { result.features ≡ None }
    ensures characteristics { result.characteristics ≡ None }
    ensures repro { result.repro ≡ None }
    ensures pogo { result.pogo ≡ None }
{
    FirstDebugEntries {
        codeview: None,
        features: None,
        characteristics: None,
        repro: None,
        pogo: None,
    }
}

/// The first entry of each type. Without a debug directory there is none of any type.
#[tactic(auto, unfolding(crate::specs::Debug::first_entry, pe_records::specs::DebugDirectory::directory_table))]
pub fn first_entries(view: &View) -> Result<TypedEntries>
    ensures codeview { ReturnsAs (λ found. found.first.codeview) result
        (first_entry view.now.bytes.now view.now.image.now (directory_sections view.now 6)
        IMAGE_DEBUG_TYPE_CODEVIEW) }
    ensures features { ReturnsAs (λ found. found.first.features) result
        (first_entry view.now.bytes.now view.now.image.now (directory_sections view.now 6)
        IMAGE_DEBUG_TYPE_VC_FEATURE) }
    ensures characteristics { ReturnsAs (λ found. found.first.characteristics) result
        (first_entry view.now.bytes.now view.now.image.now (directory_sections view.now 6)
        IMAGE_DEBUG_TYPE_EX_DLLCHARACTERISTICS) }
    ensures repro { ReturnsAs (λ found. found.first.repro) result
        (first_entry view.now.bytes.now view.now.image.now (directory_sections view.now 6)
        IMAGE_DEBUG_TYPE_REPRO) }
    ensures pogo { ReturnsAs (λ found. found.first.pogo) result
        (first_entry view.now.bytes.now view.now.image.now (directory_sections view.now 6)
        IMAGE_DEBUG_TYPE_POGO) }
    ensures embedded { ReturnsAs (λ found. found.embedded) result
        (first_entry view.now.bytes.now view.now.image.now (directory_sections view.now 6)
        IMAGE_DEBUG_TYPE_EMBEDDEDPORTABLEPDB) }
    ensures checksum { ReturnsAs (λ found. found.checksum) result
        (first_entry view.now.bytes.now view.now.image.now (directory_sections view.now 6)
        IMAGE_DEBUG_TYPE_PDBCHECKSUM) }
{
    let directory = directory(view.image, DEBUG_TABLE);
    if is_absent(directory) {
        return Ok(TypedEntries {
            first: no_entries(),
            embedded: None,
            checksum: None,
        });
    }
    let range = entries_at(view, directory)?;
    let table = range.of(view.bytes);
    let entries = ImageDebugDirectoryIterator::new(table, 0);
    Ok(TypedEntries {
        first: FirstDebugEntries::of_table(table, 0),
        embedded: entries.find_type(IMAGE_DEBUG_TYPE_EMBEDDEDPORTABLEPDB),
        checksum: entries.find_type(IMAGE_DEBUG_TYPE_PDBCHECKSUM),
    })
}

/// An entry, if it is of this type.
#[tactic(auto, unfolding(crate::specs::Debug::if_of_type))]
fn if_of_type(entry: &ImageDebugDirectory, data_type: u32) -> Option<ImageDebugDirectory>
    ensures { result ≡ if_of_type data_type entry.now }
{
    if entry.data_type == data_type {
        Some(*entry)
    } else {
        None
    }
}

/// An entry by its type.
pub fn by_type(entry: &ImageDebugDirectory) -> TypedEntries
    ensures codeview { result.first.codeview ≡ if_of_type IMAGE_DEBUG_TYPE_CODEVIEW entry.now }
    ensures features { result.first.features ≡ if_of_type IMAGE_DEBUG_TYPE_VC_FEATURE entry.now }
    ensures characteristics { result.first.characteristics
        ≡ if_of_type IMAGE_DEBUG_TYPE_EX_DLLCHARACTERISTICS entry.now }
    ensures repro { result.first.repro ≡ if_of_type IMAGE_DEBUG_TYPE_REPRO entry.now }
    ensures pogo { result.first.pogo ≡ if_of_type IMAGE_DEBUG_TYPE_POGO entry.now }
    ensures embedded { result.embedded
        ≡ if_of_type IMAGE_DEBUG_TYPE_EMBEDDEDPORTABLEPDB entry.now }
    ensures checksum { result.checksum ≡ if_of_type IMAGE_DEBUG_TYPE_PDBCHECKSUM entry.now }
{
    TypedEntries {
        first: FirstDebugEntries {
            codeview: if_of_type(entry, IMAGE_DEBUG_TYPE_CODEVIEW),
            features: if_of_type(entry, IMAGE_DEBUG_TYPE_VC_FEATURE),
            characteristics: if_of_type(entry, IMAGE_DEBUG_TYPE_EX_DLLCHARACTERISTICS),
            repro: if_of_type(entry, IMAGE_DEBUG_TYPE_REPRO),
            pogo: if_of_type(entry, IMAGE_DEBUG_TYPE_POGO),
        },
        embedded: if_of_type(entry, IMAGE_DEBUG_TYPE_EMBEDDEDPORTABLEPDB),
        checksum: if_of_type(entry, IMAGE_DEBUG_TYPE_PDBCHECKSUM),
    }
}

/// Debug records, each with its own result: `DONE`, and then the record is here; `NOTHING` or an error, and then it is as it was.
#[repr(C)]
#[derive(Clone, Copy)]
pub struct DebugRecords {
    /// The symbol key of a CodeView entry.
    pub key: SymbolKey,
    /// That of PDB 2.0 in a CodeView entry.
    pub pdb20: Pdb20,
    /// That of a Repro entry.
    pub repro: Repro,
    /// That of a POGO entry.
    pub pogo: Pogo,
    /// That of an entry of an embedded PDB.
    pub embedded: EmbeddedPdb,
    /// That of an entry of the checksum of a PDB.
    pub checksum: PdbChecksum,
    /// Those of a VC feature entry.
    pub features: VCFeatureInfo,
    /// The flags of an entry of extended DLL characteristics.
    pub characteristics: u32,
    /// The result of `key`.
    pub key_result: u32,
    /// The result of `pdb20`.
    pub pdb20_result: u32,
    /// The result of `repro`.
    pub repro_result: u32,
    /// The result of `pogo`.
    pub pogo_result: u32,
    /// The result of `embedded`.
    pub embedded_result: u32,
    /// The result of `checksum`.
    pub checksum_result: u32,
    /// The result of `features`.
    pub features_result: u32,
    /// The result of `characteristics`.
    pub characteristics_result: u32,
}

/// Reads the record of each entry, with a result of its own.
pub fn read_records(bytes: &[u8], mode: u32, entries: &TypedEntries, out: &mut DebugRecords)
    ensures key { HandsOutIf out.new.key_result out.old.key out.new.key
        (of_entry (key_of bytes.now mode) entries.now.first.codeview) }
    ensures pdb20 { HandsOutIf out.new.pdb20_result out.old.pdb20 out.new.pdb20
        (of_entry (pdb20_of bytes.now mode) entries.now.first.codeview) }
    ensures repro { HandsOutIf out.new.repro_result out.old.repro out.new.repro
        (of_entry (repro_of bytes.now mode) entries.now.first.repro) }
    ensures pogo { HandsOutIf out.new.pogo_result out.old.pogo out.new.pogo
        (of_entry (pogo_of bytes.now mode) entries.now.first.pogo) }
    ensures embedded { HandsOutIf out.new.embedded_result out.old.embedded out.new.embedded
        (of_entry (embedded_of bytes.now mode) entries.now.embedded) }
    ensures checksum { HandsOutIf out.new.checksum_result out.old.checksum out.new.checksum
        (of_entry (checksum_of bytes.now mode) entries.now.checksum) }
    ensures features { HandsOutIf out.new.features_result out.old.features out.new.features
        (of_entry (features_of bytes.now mode) entries.now.first.features) }
    ensures characteristics { HandsOutIf out.new.characteristics_result out.old.characteristics out.new.characteristics
        (of_entry (characteristics_of bytes.now mode) entries.now.first.characteristics) }
{
    let first = &entries.first;
    let key = first
        .codeview
        .map_or(Ok(None), |entry| key_of(bytes, mode, &entry));
    out.key_result = hand_out_some(key, &mut out.key);
    let pdb20 = first
        .codeview
        .map_or(Ok(None), |entry| pdb20_of(bytes, mode, &entry));
    out.pdb20_result = hand_out_some(pdb20, &mut out.pdb20);
    let repro = first
        .repro
        .map_or(Ok(None), |entry| repro_of(bytes, mode, &entry));
    out.repro_result = hand_out_some(repro, &mut out.repro);
    let pogo = first
        .pogo
        .map_or(Ok(None), |entry| pogo_of(bytes, mode, &entry));
    out.pogo_result = hand_out_some(pogo, &mut out.pogo);
    let embedded = entries
        .embedded
        .map_or(Ok(None), |entry| embedded_of(bytes, mode, &entry));
    out.embedded_result = hand_out_some(embedded, &mut out.embedded);
    let checksum = entries
        .checksum
        .map_or(Ok(None), |entry| checksum_of(bytes, mode, &entry));
    out.checksum_result = hand_out_some(checksum, &mut out.checksum);
    let features = first
        .features
        .map_or(Ok(None), |entry| features_of(bytes, mode, &entry));
    out.features_result = hand_out_some(features, &mut out.features);
    let characteristics = first
        .characteristics
        .map_or(Ok(None), |entry| characteristics_of(bytes, mode, &entry));
    out.characteristics_result = hand_out_some(characteristics, &mut out.characteristics);
}

/// Each result is the number of what refuses the table of entries, and each record is as it was.
pub fn refuse_records(number: u32, out: &mut DebugRecords)
    ensures { out.new ≡ record out.old {
      key_result = number;
      pdb20_result = number;
      repro_result = number;
      pogo_result = number;
      embedded_result = number;
      checksum_result = number;
      features_result = number;
      characteristics_result = number;
    } }
{
    out.key_result = number;
    out.pdb20_result = number;
    out.repro_result = number;
    out.pogo_result = number;
    out.embedded_result = number;
    out.checksum_result = number;
    out.features_result = number;
    out.characteristics_result = number;
}
