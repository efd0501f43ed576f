//! Laws of derived traits: values are equal if all their fields are, slices by their bytes; a default has zeros and
//! empty slices; a clone is its original.

ghost use Rattle.std.specs.Prelude.{◌≡◌, [], replicate};
ghost use Rattle.pe_core.specs.Traits.{IsEquality, ComparesBy, Copies};
ghost use Rattle.pe_records.specs.declared.certificate_table.AttributeCertificateRevision.{AttributeCertificateRevision};
ghost use Rattle.pe_records.specs.declared.certificate_table.AttributeCertificateType.{AttributeCertificateType};
ghost use Rattle.pe_records.specs.declared.debug.DebugData.{DebugData};
ghost use Rattle.pe_records.specs.declared.debug.ImageDebugDirectory.{ImageDebugDirectory};
ghost use Rattle.pe_records.specs.declared.debug.codeview.CodeviewPDB70DebugInfo.{CodeviewPDB70DebugInfo};
ghost use Rattle.pe_records.specs.declared.debug.codeview.CodeviewPDB20DebugInfo.{CodeviewPDB20DebugInfo};
ghost use Rattle.pe_records.specs.declared.debug.pogo.POGOInfo.{POGOInfo};
ghost use Rattle.pe_records.specs.declared.debug.pogo.POGOInfoEntry.{POGOInfoEntry};
ghost use Rattle.pe_records.specs.declared.debug.records.ExDllCharacteristicsInfo.{ExDllCharacteristicsInfo};
ghost use Rattle.pe_records.specs.declared.debug.records.ReproInfo.{ReproInfo};
ghost use Rattle.pe_records.specs.declared.debug.records.VCFeatureInfo.{VCFeatureInfo};
ghost use Rattle.pe_records.specs.DebugRecords.{pdb70_view, pdb20_view, repro_view, pogo_view, debug_view};
ghost use Rattle.pe_records.specs.Pogo.{pogo_entry_of};

use crate::certificate_table::{AttributeCertificateRevision, AttributeCertificateType};
use crate::debug::{
    CodeviewPDB20DebugInfo, CodeviewPDB70DebugInfo, DebugData, ExDllCharacteristicsInfo,
    ImageDebugDirectory, POGOInfo, POGOInfoEntry, ReproInfo, VCFeatureInfo,
};

/// Values are equal exactly if all their fields are.
pub fn equal_records_are_the_same()
    ensures revision { IsEquality ⟦<AttributeCertificateRevision as PartialEq>⟧.eq }
    ensures certificate_type { IsEquality ⟦<AttributeCertificateType as PartialEq>⟧.eq }
    ensures entry { IsEquality ⟦<ImageDebugDirectory as PartialEq>⟧.eq }
    ensures features { IsEquality ⟦<VCFeatureInfo as PartialEq>⟧.eq }
    ensures characteristics { IsEquality ⟦<ExDllCharacteristicsInfo as PartialEq>⟧.eq }
    ensures pdb70 { ComparesBy pdb70_view ⟦<CodeviewPDB70DebugInfo<'static> as PartialEq>⟧.eq }
    ensures pdb20 { ComparesBy pdb20_view ⟦<CodeviewPDB20DebugInfo<'static> as PartialEq>⟧.eq }
    ensures repro { ComparesBy repro_view ⟦<ReproInfo<'static> as PartialEq>⟧.eq }
    ensures pogo { ComparesBy pogo_view ⟦<POGOInfo<'static> as PartialEq>⟧.eq }
    ensures pogo_entry { ComparesBy pogo_entry_of ⟦<POGOInfoEntry<'static> as PartialEq>⟧.eq }
{}

/// Debug data are equal exactly if their tables and their records are.
#[tactic(auto, using(crate::proofs::DebugEquality::data_equal))]
pub fn equal_debug_data_look_the_same()
    ensures { ComparesBy debug_view ⟦<DebugData<'static> as PartialEq>⟧.eq }
{
    equal_records_are_the_same()
}

/// A default has zeros and empty slices.
pub fn defaults_are_zeros()
    ensures entry { (x : ImageDebugDirectory) → ⟦<ImageDebugDirectory as Default>⟧.is_default x →
        x ≡ record {
          characteristics = 0;
          time_date_stamp = 0;
          major_version = 0;
          minor_version = 0;
          data_type = 0;
          size_of_data = 0;
          address_of_raw_data = 0;
          pointer_to_raw_data = 0;
        } }
    ensures features { (x : VCFeatureInfo) →
        ⟦<VCFeatureInfo as Default>⟧.is_default x → x ≡ record {
          pre_vc_plusplus_count = 0;
          c_and_cplusplus_count = 0;
          guard_stack_count = 0;
          sdl_count = 0;
          guard_count = 0;
        } }
    ensures characteristics { (x : ExDllCharacteristicsInfo) →
        ⟦<ExDllCharacteristicsInfo as Default>⟧.is_default x →
        x ≡ record { characteristics_ex = 0 } }
    ensures pdb70 { (x : CodeviewPDB70DebugInfo) →
        ⟦<CodeviewPDB70DebugInfo<'static> as Default>⟧.is_default x → pdb70_view x
        ≡ record { codeview_signature = 0; signature = replicate 16 0; age = 0; filename = [] } }
    ensures pdb20 { (x : CodeviewPDB20DebugInfo) →
        ⟦<CodeviewPDB20DebugInfo<'static> as Default>⟧.is_default x → pdb20_view x ≡ record
        { codeview_signature = 0; codeview_offset = 0; signature = 0; age = 0; filename = [] } }
    ensures pogo { (x : POGOInfo) → ⟦<POGOInfo<'static> as Default>⟧.is_default x →
        pogo_view x ≡ record { signature = 0; bytes = [] } }
    ensures pogo_entry { (x : POGOInfoEntry) → ⟦<POGOInfoEntry<'static> as Default>⟧.is_default x →
        pogo_entry_of x ≡ record { rva = 0; size = 0; name = [] } }
{}

/// A clone of debug data has the tables and the records of its original.
fn clones_of_debug_data_look_the_same()
    ensures { (x y : DebugData) →
        ⟦<DebugData<'static> as Clone>⟧.is_clone x y → debug_view y ≡ debug_view x }
{}

/// A clone is its original.
pub fn clones_of_records_are_the_same()
    ensures revision { Copies ⟦<AttributeCertificateRevision as Clone>⟧.is_clone }
    ensures certificate_type { Copies ⟦<AttributeCertificateType as Clone>⟧.is_clone }
    ensures entry { Copies ⟦<ImageDebugDirectory as Clone>⟧.is_clone }
    ensures features { Copies ⟦<VCFeatureInfo as Clone>⟧.is_clone }
    ensures characteristics { Copies ⟦<ExDllCharacteristicsInfo as Clone>⟧.is_clone }
    ensures pdb70 { Copies ⟦<CodeviewPDB70DebugInfo<'static> as Clone>⟧.is_clone }
    ensures pdb20 { Copies ⟦<CodeviewPDB20DebugInfo<'static> as Clone>⟧.is_clone }
    ensures repro { Copies ⟦<ReproInfo<'static> as Clone>⟧.is_clone }
    ensures pogo { Copies ⟦<POGOInfo<'static> as Clone>⟧.is_clone }
    ensures pogo_entry { Copies ⟦<POGOInfoEntry<'static> as Clone>⟧.is_clone }
    ensures debug_data { (x y : DebugData) →
        ⟦<DebugData<'static> as Clone>⟧.is_clone x y → debug_view y ≡ debug_view x }
{
    clones_of_debug_data_look_the_same()
}
