//! The entries from which the records of debug data are read: the first whole entry of each of five types. One pass over
//! the table finds them all, where `find_type` of the iterator makes one for each type.

ghost use Rattle.std.specs.Prelude.{◌≡◌, ◌==◌, [], ◌∷◌};
ghost use Rattle.std.specs.Option.{option_or};
ghost use Rattle.std.specs.List.{find};
ghost use Rattle.pe_records.specs.DebugDirectory.{first_of_type};
ghost use Rattle.pe_records.specs.declared.debug.constants.TheConstants.{IMAGE_DEBUG_TYPE_CODEVIEW, IMAGE_DEBUG_TYPE_EX_DLLCHARACTERISTICS, IMAGE_DEBUG_TYPE_POGO, IMAGE_DEBUG_TYPE_REPRO, IMAGE_DEBUG_TYPE_VC_FEATURE};

use crate::debug::ImageDebugDirectory;
use crate::debug::constants::{
    IMAGE_DEBUG_DIRECTORY_SIZE, IMAGE_DEBUG_TYPE_CODEVIEW, IMAGE_DEBUG_TYPE_EX_DLLCHARACTERISTICS,
    IMAGE_DEBUG_TYPE_POGO, IMAGE_DEBUG_TYPE_REPRO, IMAGE_DEBUG_TYPE_VC_FEATURE,
};

/// The first whole entry of each type whose record `DebugData` reads. A field is `None` without such an entry. What the
/// entries lead to is not read, so a caller can read each record with a result of its own.
#[derive(Clone, Copy)]
pub struct FirstDebugEntries {
    /// The first entry of `IMAGE_DEBUG_TYPE_CODEVIEW`: its record names the PDB, in the form of PDB 7.0 or PDB 2.0.
    pub codeview: Option<ImageDebugDirectory>,
    /// The first entry of `IMAGE_DEBUG_TYPE_VC_FEATURE`.
    pub features: Option<ImageDebugDirectory>,
    /// The first entry of `IMAGE_DEBUG_TYPE_EX_DLLCHARACTERISTICS`.
    pub characteristics: Option<ImageDebugDirectory>,
    /// The first entry of `IMAGE_DEBUG_TYPE_REPRO`.
    pub repro: Option<ImageDebugDirectory>,
    /// The first entry of `IMAGE_DEBUG_TYPE_POGO`.
    pub pogo: Option<ImageDebugDirectory>,
}

/// Keeps the entry if it has the type and none is kept so far.
fn keep_first(kept: &mut Option<ImageDebugDirectory>, entry: &ImageDebugDirectory, data_type: u32)
    ensures { kept.new ≡ option_or kept.old
        (find (λ e. e.data_type == data_type) (entry.now ∷ [])) }
{
    if kept.is_none() && entry.data_type == data_type {
        *kept = Some(*entry);
    }
}

impl FirstDebugEntries {
    /// The first entries of a table, the bytes at `DebugData::table_range`. Each of its entries is read once, from the
    /// first to the last, and a truncated last one is none. `fixup` is subtracted from the RVA and the file offset in each
    /// entry, modulo 2^32: pass 0, or for a TE image `TeHeader::rva_offset`.
    #[tactic(auto, unfolding(crate::specs::DebugDirectory::whole_debug_entries, pe_core::specs::Rows::each))]
    pub fn of_table(table: &[u8], fixup: u32) -> FirstDebugEntries
        ensures codeview { result.codeview ≡ first_of_type fixup IMAGE_DEBUG_TYPE_CODEVIEW table.now }
        ensures features { result.features ≡ first_of_type fixup IMAGE_DEBUG_TYPE_VC_FEATURE table.now }
        ensures characteristics { result.characteristics
            ≡ first_of_type fixup IMAGE_DEBUG_TYPE_EX_DLLCHARACTERISTICS table.now }
        ensures repro { result.repro ≡ first_of_type fixup IMAGE_DEBUG_TYPE_REPRO table.now }
        ensures pogo { result.pogo ≡ first_of_type fixup IMAGE_DEBUG_TYPE_POGO table.now }
    {
        let mut codeview = None;
        let mut features = None;
        let mut characteristics = None;
        let mut repro = None;
        let mut pogo = None;
        for i in 0..table.len() / IMAGE_DEBUG_DIRECTORY_SIZE {
            let entry = ImageDebugDirectory::at(table, IMAGE_DEBUG_DIRECTORY_SIZE * i, fixup);
            keep_first(&mut codeview, &entry, IMAGE_DEBUG_TYPE_CODEVIEW);
            keep_first(&mut features, &entry, IMAGE_DEBUG_TYPE_VC_FEATURE);
            keep_first(
                &mut characteristics,
                &entry,
                IMAGE_DEBUG_TYPE_EX_DLLCHARACTERISTICS,
            );
            keep_first(&mut repro, &entry, IMAGE_DEBUG_TYPE_REPRO);
            keep_first(&mut pogo, &entry, IMAGE_DEBUG_TYPE_POGO);
        }
        FirstDebugEntries {
            codeview,
            features,
            characteristics,
            repro,
            pogo,
        }
    }
}
