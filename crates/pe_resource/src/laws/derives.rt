//! Laws of derived traits: `==` is equality of all fields, a default has zeros, `None` and no bytes, and a clone equals
//! its original.

ghost use Rattle.std.specs.Prelude.{◌≡◌, ◌↔◌, IsTrue, Ok, Result};
ghost use Rattle.pe_core.specs.declared.error.Error.{Error};
ghost use Rattle.pe_core.specs.declared.table_entries.WholeEntries.{WholeEntries};
ghost use Rattle.pe_resource.specs.declared.version.VersionName.{VersionName};
ghost use Rattle.pe_resource.specs.declared.directory.ImageResourceDirectory.{ImageResourceDirectory};
ghost use Rattle.pe_resource.specs.declared.content.ResourceDataEntry.{ResourceDataEntry};
ghost use Rattle.pe_resource.specs.declared.entry.ResourceEntry.{ResourceEntry};
ghost use Rattle.pe_resource.specs.declared.version.VsFixedFileInfo.{VsFixedFileInfo};
ghost use Rattle.pe_resource.specs.declared.version.VersionField.{VersionField};
ghost use Rattle.pe_resource.specs.declared.leaves.ResourceLeaf.{ResourceLeaf};
ghost use Rattle.pe_resource.specs.declared.leaves.ResourceLeaves.{ResourceLeaves};
ghost use Rattle.pe_resource.specs.declared.manifest.ManifestData.{ManifestData};
ghost use Rattle.pe_resource.specs.declared.resource.ResourceData.{ResourceData};
ghost use Rattle.pe_resource.specs.declared.string.ResourceString.{ResourceString};
ghost use Rattle.pe_resource.specs.declared.string.ResourceStringIterator.{ResourceStringIterator};
ghost use Rattle.pe_resource.specs.declared.version.StringFileInfo.{StringFileInfo};
ghost use Rattle.pe_resource.specs.declared.version.VersionInfo.{VersionInfo};
ghost use Rattle.pe_resource.specs.Resources.{resource_view, no_resources, manifest_view};
ghost use Rattle.pe_resource.specs.VersionStrings.{string_view};
ghost use Rattle.std.specs.Prelude.{[]};

use crate::content::ResourceDataEntry;
use crate::directory::{ImageResourceDirectory, ResourceEntryIterator};
use crate::entry::ResourceEntry;
use crate::leaves::{ResourceLeaf, ResourceLeaves};
use crate::manifest::ManifestData;
use crate::resource::ResourceData;
use crate::string::{ResourceString, ResourceStringIterator};
use crate::version::{StringFileInfo, VersionField, VersionInfo, VersionName, VsFixedFileInfo};

/// Two records are equal exactly if all their fields are equal.
pub fn equal_records_have_equal_fields()
    ensures image_resource_directory { (x y : ImageResourceDirectory) →
        IsTrue (⟦<ImageResourceDirectory as PartialEq>⟧.eq x y) ↔ (x ≡ y) }
    ensures resource_data_entry { (x y : ResourceDataEntry) →
        IsTrue (⟦<ResourceDataEntry as PartialEq>⟧.eq x y) ↔ (x ≡ y) }
    ensures resource_entry { (x y : ResourceEntry) →
        IsTrue (⟦<ResourceEntry as PartialEq>⟧.eq x y) ↔ (x ≡ y) }
    ensures resource_leaf { (x y : ResourceLeaf) →
        IsTrue (⟦<ResourceLeaf as PartialEq>⟧.eq x y) ↔ (x ≡ y) }
    ensures vs_fixed_file_info { (x y : VsFixedFileInfo) →
        IsTrue (⟦<VsFixedFileInfo as PartialEq>⟧.eq x y) ↔ (x ≡ y) }
    ensures version_field { (x y : VersionField) →
        IsTrue (⟦<VersionField as PartialEq>⟧.eq x y) ↔ (x ≡ y) }
    ensures version_name { (x y : VersionName) →
        IsTrue (⟦<VersionName as PartialEq>⟧.eq x y) ↔ (x ≡ y) }
    ensures resource_string { (x y : ResourceString) →
        IsTrue (⟦<ResourceString<'static> as PartialEq>⟧.eq x y) ↔ (string_view x ≡ string_view y) }
{}

/// A default has zeros, `None` and no bytes.
pub fn defaults_are_empty()
    ensures image_resource_directory { (x : ImageResourceDirectory) →
        ⟦<ImageResourceDirectory as Default>⟧.is_default x →
        x ≡ record {
          characteristics = 0;
          time_date_stamp = 0;
          major_version = 0;
          minor_version = 0;
          number_of_named_entries = 0;
          number_of_id_entries = 0;
        } }
    ensures resource_data_entry { (x : ResourceDataEntry) →
        ⟦<ResourceDataEntry as Default>⟧.is_default x →
        x ≡ record { offset_to_data = 0; size = 0; code_page = 0; reserved = 0 } }
    ensures resource_entry { (x : ResourceEntry) → ⟦<ResourceEntry as Default>⟧.is_default x →
        x ≡ record { name_or_id = 0; offset_to_data_or_directory = 0 } }
    ensures vs_fixed_file_info { (x : VsFixedFileInfo) →
        ⟦<VsFixedFileInfo as Default>⟧.is_default x →
        x ≡ record {
          signature = 0;
          struct_version = 0;
          file_version_ms = 0;
          file_version_ls = 0;
          product_version_ms = 0;
          product_version_ls = 0;
          file_flags_mask = 0;
          file_flags = 0;
          file_os = 0;
          file_type = 0;
          file_subtype = 0;
          file_date_ms = 0;
          file_date_ls = 0;
        } }
    ensures version_field { (x : VersionField) → ⟦<VersionField as Default>⟧.is_default x →
        x ≡ record { major = 0; minor = 0; build = 0; revision = 0 } }
    ensures manifest_data { (x : ManifestData) →
        ⟦<ManifestData<'static> as Default>⟧.is_default x → manifest_view x ≡ [] }
    ensures resource_data { (x : ResourceData) →
        ⟦<ResourceData<'static> as Default>⟧.is_default x → resource_view x ≡ no_resources }
{}

/// A clone equals its original.
pub fn clones_are_their_originals()
    ensures image_resource_directory { (x y : ImageResourceDirectory) →
        ⟦<ImageResourceDirectory as Clone>⟧.is_clone x y → y ≡ x }
    ensures resource_data_entry { (x y : ResourceDataEntry) →
        ⟦<ResourceDataEntry as Clone>⟧.is_clone x y → y ≡ x }
    ensures resource_entry { (x y : ResourceEntry) →
        ⟦<ResourceEntry as Clone>⟧.is_clone x y → y ≡ x }
    ensures vs_fixed_file_info { (x y : VsFixedFileInfo) →
        ⟦<VsFixedFileInfo as Clone>⟧.is_clone x y → y ≡ x }
    ensures version_field { (x y : VersionField) → ⟦<VersionField as Clone>⟧.is_clone x y → y ≡ x }
    ensures version_name { (x y : VersionName) → ⟦<VersionName as Clone>⟧.is_clone x y → y ≡ x }
    ensures resource_entry_iterator { (x y : WholeEntries (Result ResourceEntry Error)) →
        ⟦<ResourceEntryIterator<'static> as Clone>⟧.is_clone x y → y ≡ x }
    ensures manifest_data { (x y : ManifestData) →
        ⟦<ManifestData<'static> as Clone>⟧.is_clone x y → y ≡ x }
    ensures resource_data { (x y : ResourceData) →
        ⟦<ResourceData<'static> as Clone>⟧.is_clone x y → y ≡ x }
    ensures resource_leaf { (x y : ResourceLeaf) → ⟦<ResourceLeaf as Clone>⟧.is_clone x y → y ≡ x }
    ensures resource_leaves { (x y : ResourceLeaves) →
        ⟦<ResourceLeaves<'static> as Clone>⟧.is_clone x y → y ≡ x }
    ensures resource_string { (x y : ResourceString) →
        ⟦<ResourceString<'static> as Clone>⟧.is_clone x y → y ≡ x }
    ensures resource_string_iterator { (x y : ResourceStringIterator) →
        ⟦<ResourceStringIterator<'static> as Clone>⟧.is_clone x y → y ≡ x }
    ensures string_file_info { (x y : StringFileInfo) →
        ⟦<StringFileInfo<'static> as Clone>⟧.is_clone x y → y ≡ x }
    ensures version_info { (x y : VersionInfo) →
        ⟦<VersionInfo<'static> as Clone>⟧.is_clone x y → y ≡ x }
{}
