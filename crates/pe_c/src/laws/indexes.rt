//! The law of indexes: what calls return by an index that `pe_c_index` made is what they return without one.

ghost use Rattle.std.specs.Prelude.{◌≡◌, ℕ, List, [], Option, Result, ◌==◌, ◌<◌, length};
ghost use Rattle.pe_core.specs.Refusals.{Refusal};
ghost use Rattle.pe_core.specs.declared.byte_range.ByteRange.{ByteRange};
ghost use Rattle.pe_directories.specs.declared.clr.ClrHeader.{ClrHeader};
ghost use Rattle.pe_directories.specs.declared.tls.TlsDirectory.{TlsDirectory};
ghost use Rattle.calls_directories.specs.Clr.{clr_header_at, clr_metadata_at};
ghost use Rattle.calls_headers.specs.Debug.{debug_entries_range, first_entry};
ghost use Rattle.calls_base.specs.Directories.{callbacks_at, table_at, tls_at};
ghost use Rattle.calls_failures.specs.DirectoryFailures.{directory_refusal};
ghost use Rattle.calls_directories.specs.DirectoryTables.{root_at};
ghost use Rattle.calls_directories.specs.GuardTables.{guard_table_at};
ghost use Rattle.calls_base.specs.Images.{map_of_image};
ghost use Rattle.calls_directories.specs.LoadConfigs.{load_config_at, numbered_field_at};
ghost use Rattle.calls_base.specs.Loaded.{relocated_by};
ghost use Rattle.calls_base.specs.Maps.{section_at};
ghost use Rattle.calls_base.specs.MapRanges.{range_at};
ghost use Rattle.calls_directories.specs.ResourceLeaves.{image_tree, leaves_start, StepsLeaves};
ghost use Rattle.calls_base.specs.SectionIndexes.{HasIndex, SameByAny, SameByIndex, section_by};
ghost use Rattle.calls_unwind.specs.Unwinding.{exception_table_at, links_at};
ghost use Rattle.calls_directories.specs.Versions.{IsContentOf};
ghost use Rattle.calls_base.specs.Views.{map_of, may_map};
ghost use Rattle.calls_base.specs.declared.view.View.{View};
ghost use Rattle.pe_core.specs.Imports.{entry_size};
ghost use Rattle.calls_directories.specs.DirectoryRuns.{StepsDelayLibraries, StepsDelayedFunctions};
ghost use Rattle.calls_directories.specs.Exports.{StepsExports};
ghost use Rattle.calls_directories.specs.Imports.{StepsImports, StepsLibraries};
ghost use Rattle.calls_base.specs.KeptSections.{ChangeNothing, ReturnsAsItKeeps, map_kept, no_sections};
ghost use Rattle.calls_unwind.specs.Plans.{StepsPlan};
ghost use Rattle.calls_directories.specs.declared.directories.delay_imports.DelayWalk.{DelayWalk};
ghost use Rattle.calls_directories.specs.declared.directories.delay_imports.DelayedFunctionWalk.{DelayedFunctionWalk};
ghost use Rattle.calls_directories.specs.declared.names.exports.ExportWalk.{ExportWalk};
ghost use Rattle.calls_directories.specs.declared.names.imports.ImportWalk.{ImportWalk};
ghost use Rattle.calls_directories.specs.declared.names.imports.LibraryWalk.{LibraryWalk};
ghost use Rattle.calls_base.specs.declared.kept_sections.KeptSections.{KeptSections};
ghost use Rattle.calls_unwind.specs.declared.unwinding.plan.PlanWalk.{PlanWalk};
ghost use Rattle.calls_base.specs.declared.ranges.Range.{Range};
ghost use Rattle.calls_directories.specs.declared.resources.leaves.LeafWalk.{LeafWalk};

/// Where a view has an index of its sections, as `pe_c_index` writes it, its map of RVAs is that of the sections: so every call
/// whose definition takes a map returns what it returns without the index. The section of an RVA and the bytes from it on are the
/// same too. Each of these clauses is a field of `IsIndexOf`, said of the view. A view without entries counts as one that has an index:
/// so these laws lead from the contract of any call to what is defined over all sections.
#[tactic(auto, using(calls_base::proofs::IndexMaps::without_entries))]
pub fn indexes_change_nothing()
    ensures without { (v : View) → v.index.now ≡ [] → HasIndex v }
    ensures maps { (v : View) → HasIndex v →
        map_of v ≡ map_of_image v.image.now v.sections.now }
    ensures owners { (v : View) → HasIndex v → (x : ℕ) →
        section_by v.image.now v.sections.now v.index.now x
        ≡ section_at v.image.now v.sections.now x }
    ensures ranges { (v : View) → HasIndex v → (b : List ℕ) (x : ℕ) →
        range_at b v.image.now (may_map v x) x ≡ range_at b v.image.now v.sections.now x }
{}

/// Of such a view the calls for directories return what they return without the index: where the table of a directory is, and what
/// is read at the RVA of the directory. (The definitions of exports and imports take a map.)

#[tactic(auto, using(calls_failures::proofs::IndexedCalls::clr_headers, calls_failures::proofs::IndexedCalls::debug_entries, calls_failures::proofs::IndexedCalls::fields, calls_failures::proofs::IndexedCalls::first_entries, calls_failures::proofs::IndexedCalls::functions, calls_failures::proofs::IndexedCalls::leaves, calls_failures::proofs::IndexedCalls::load_configs, calls_failures::proofs::IndexedCalls::relocations, calls_failures::proofs::IndexedCalls::roots, calls_failures::proofs::IndexedCalls::tables, calls_failures::proofs::IndexedCalls::tls, calls_failures::proofs::IndexedCalls::trees))]
pub fn directories_are_those_of_all_sections()
    ensures tables { (i : ℕ) → SameByIndex (table_at i) i }
    ensures relocations { (difference : ℕ) (old : List ℕ) →
        SameByIndex (λ b image s. relocated_by b image s difference old) 5 }
    ensures tls { SameByIndex tls_at 9 }
    ensures load_config { SameByIndex load_config_at 10 }
    ensures fields { (n : ℕ) → SameByIndex (numbered_field_at n) 10 }
    ensures clr_header { SameByIndex clr_header_at 14 }
    ensures debug_entries { SameByIndex (λ b image s. debug_entries_range b image s image.mode) 6 }
    ensures first_debug_entry { (kind : ℕ) →
        SameByIndex (λ b image s. first_entry b image s kind) 6 }
    ensures functions { (machine width : ℕ) →
        SameByIndex (λ b image s. exception_table_at machine width b image s image.mode) 3 }
    ensures leaves { SameByIndex leaves_start 2 }
    ensures tree { SameByIndex image_tree 2 }
    ensures root { SameByIndex root_at 2 }
{}

/// The same of calls that map more than the RVA of a directory: the callbacks of TLS, the metadata of a CLR header, the tables of the
/// load configuration, the content of a resource, and why a directory is refused.

#[tactic(auto, using(calls_failures::proofs::IndexedCalls::callbacks, calls_failures::proofs::IndexedCalls::contents, calls_failures::proofs::IndexedCalls::guard_tables, calls_failures::proofs::IndexedCalls::metadata, calls_failures::proofs::IndexedCalls::refusals))]
pub fn parts_are_those_of_all_sections()
    ensures callbacks { (tls : TlsDirectory) →
        SameByAny (λ b image may_map. callbacks_at b image may_map tls) }
    ensures metadata { (h : ClrHeader) → SameByAny
        (λ b image may_map. clr_metadata_at b image (may_map h.metadata.virtual_address) h) }
    ensures guard_tables { (n : ℕ) → SameByAny (guard_table_at n) }
    ensures contents { (v : View) → HasIndex v →
        (id : ℕ) (r : Result (Option ByteRange) Refusal) →
        IsContentOf v.bytes.now v.image.now (may_map v) v.image.now.mode id r →
        IsContentOf v.bytes.now v.image.now (λ _. v.sections.now) v.image.now.mode id r }
    ensures refusals { (i : ℕ) → SameByAny (directory_refusal i) }
{}

/// A walk keeps no section at its start, and what changes no offset after each step (`StepsKept`, `KeepsOn`), whatever the sections are.
/// Such a walk maps RVAs as its view does: so each step returns what the laws of walks, of lists and of failures say of the view's map.
/// A number past the last section is as none.
#[tactic(auto, using(calls_base::proofs::KeptSections::none_past_the_last, calls_base::proofs::KeptSections::same_map))]
pub fn kept_sections_change_nothing()
    ensures none { (v : View) → ChangeNothing v no_sections }
    ensures maps { (v : View) (k : KeptSections) → ChangeNothing v k → map_kept v k ≡ map_of v }
    ensures past_the_last { (v : View) (k : KeptSections) → length v.sections.now < k.first →
        length v.sections.now < k.second → ChangeNothing v k }
{}

/// So the steps of a whole walk, one after the other, return the items that the laws of walks say for where it stands.
#[tactic(auto, using(calls_base::proofs::KeptWalks::returns_too))]
pub fn walks_return_as_they_keep()
    ensures exports { ReturnsAsItKeeps (λ (w : ExportWalk). w.exports) (λ w. w.kept)
        (λ v m. StepsExports m v.bytes.now) }
    ensures libraries { ReturnsAsItKeeps (λ (w : LibraryWalk). w.libraries) (λ w. w.kept)
        (λ v m. StepsLibraries m (entry_size (v.image.now.width == 64)) v.bytes.now) }
    ensures imports { ReturnsAsItKeeps (λ (w : ImportWalk). w.imports) (λ w. w.kept)
        (λ v m. StepsImports m (entry_size (v.image.now.width == 64)) v.bytes.now) }
    ensures delay_imports { ReturnsAsItKeeps (λ (w : DelayWalk). w.entries) (λ w. w.kept)
        (λ v m. StepsDelayLibraries m v.bytes.now v.image.now) }
    ensures delayed_functions { ReturnsAsItKeeps (λ (w : DelayedFunctionWalk). w.functions) (λ w. w.kept)
        (λ v m. StepsDelayedFunctions m v.bytes.now v.image.now) }
    ensures leaves { ReturnsAsItKeeps (λ (w : LeafWalk). w.leaves) (λ w. w.kept)
        (λ v m. StepsLeaves v.bytes.now m) }
    ensures plans { (table : Range) → ReturnsAsItKeeps (λ (w : PlanWalk). w.plan) (λ w. w.kept)
        (λ v m. StepsPlan v.bytes.now (links_at m v.bytes.now table)) }
{}
