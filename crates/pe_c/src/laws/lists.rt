//! Laws of lists in one call: what list calls write, one after the other, is what the steps of the walk return.

ghost use Rattle.std.specs.Prelude.{ℕ, Option, List, ◌≡◌};
ghost use Rattle.pe_core.specs.declared.section_table.SectionTable.{SectionTable};
ghost use Rattle.calls_unwind.specs.Arm64.{StepsArm64Codes, arm64_function_in};
ghost use Rattle.calls_headers.specs.Debug.{StepsPogoEntries};
ghost use Rattle.calls_base.specs.DirectoryResults.{directory_number};
ghost use Rattle.calls_directories.specs.DirectoryRuns.{StepsBlocks, StepsBoundImports, StepsForwarders, StepsRelocations};
ghost use Rattle.calls_directories.specs.ExportAddresses.{exported_at};
ghost use Rattle.calls_base.specs.HandsOut.{result_number};
ghost use Rattle.calls_directories.specs.KeptWalks.{StepsKeptDelayLibraries, StepsKeptExports, StepsKeptFunctions, StepsKeptImports, StepsKeptLeaves, StepsKeptLibraries};
ghost use Rattle.calls_directories.specs.LibraryFunctions.{StepsLibraryFunctions};
ghost use Rattle.calls_directories.specs.LibraryImports.{StepsLibraryImports};
ghost use Rattle.calls_base.specs.Lists.{GiveLists, StepsByIndex, if_there};
ghost use Rattle.calls_directories.specs.VersionBlocks.{StepsVersionBlocks};
ghost use Rattle.calls_headers.specs.Coff.{StepsNamedSymbols};
ghost use Rattle.calls_pdb.specs.PdbModules.{StepsModules};
ghost use Rattle.calls_pdb.specs.PdbSymbols.{StepsPdbSymbols};
ghost use Rattle.calls_pdb.specs.Pdbs.{pdb_number};
ghost use Rattle.calls_base.specs.TreeResults.{tree_number};
ghost use Rattle.calls_headers.specs.Headers.{long_name_by_index};
ghost use Rattle.calls_unwind.specs.Unwinding.{StepsCodes, function_in};
ghost use Rattle.calls_directories.specs.declared.names.export_addresses.AddressTable.{AddressTable};
ghost use Rattle.calls_base.specs.declared.image.Image.{Image};
ghost use Rattle.calls_base.specs.declared.ranges.Range.{Range};
ghost use Rattle.calls_base.specs.declared.view.View.{View};
ghost use Rattle.calls_base.specs.declared.results.TheConstants.{BAD_ADDRESS, BAD_OPERATION, DONE, LONG_CHAIN, MISSING, NOTHING, NOT_RISING, OUT_OF_ORDER, ROOM};

/// Where the steps of a walk return some items, which the laws of walks say for each of them, a list call with room for `n`
/// entries returns the first `n`, or all that come before the end or before an error, and the walk after it has the other items
/// left. Where an error is the first item the call returns its number, and the walk is over. So calls one after the other, with
/// room for any numbers of entries, return exactly the items, and then no entry. A call with room for one entry returns what a step
/// does, and leaves the walk where that does: so do the functions for the next item that `pe.h` defines over lists. A walk that keeps
/// sections returns what it returns without them, by `walks_return_as_they_keep`.
pub fn lists_are_what_steps_return()
    ensures codes { (b : List ℕ) → GiveLists result_number (StepsCodes b) }
    ensures arm64_codes { (b : List ℕ) → GiveLists result_number (StepsArm64Codes b) }
    ensures exports { (v : View) → GiveLists result_number (StepsKeptExports v) }
    ensures libraries { (v : View) → GiveLists result_number (StepsKeptLibraries v) }
    ensures imports { (v : View) → GiveLists result_number (StepsKeptImports v) }
    ensures library_imports { (offset : ℕ → Option ℕ) (w : ℕ) (b : List ℕ) →
        GiveLists result_number (StepsLibraryImports offset w b) }
    ensures symbols { (b : List ℕ) (strings : Range) →
        GiveLists result_number (StepsNamedSymbols b strings) }
    ensures leaves { (v : View) → GiveLists tree_number (StepsKeptLeaves v) }
    ensures relocation_blocks { (b : List ℕ) → GiveLists directory_number (StepsBlocks b) }
    ensures relocations { (page : ℕ) (b : List ℕ) →
        GiveLists directory_number (StepsRelocations page b) }
    ensures delay_imports { (v : View) → GiveLists directory_number (StepsKeptDelayLibraries v) }
    ensures delayed_functions { (v : View) → GiveLists directory_number (StepsKeptFunctions v) }
    ensures library_functions { (offset : ℕ → Option ℕ) (b : List ℕ) (image : Image) →
        GiveLists directory_number (StepsLibraryFunctions offset b image) }
    ensures pogo_entries { (b : List ℕ) → GiveLists result_number (StepsPogoEntries b) }
    ensures bound_imports { (b : List ℕ) (table : Range) →
        GiveLists directory_number (StepsBoundImports b table) }
    ensures bound_forwarders { (b : List ℕ) (table : Range) →
        GiveLists directory_number (StepsForwarders b table) }
    ensures version_blocks { (b : List ℕ) → GiveLists result_number (StepsVersionBlocks b) }
    ensures functions { (b : List ℕ) (table : Range) →
        GiveLists result_number (StepsByIndex (λ i. if_there (function_in b table i))) }
    ensures arm64_functions { (b : List ℕ) (table : Range) →
        GiveLists result_number (StepsByIndex (λ i. if_there (arm64_function_in b table i))) }
    ensures export_addresses { (offset : ℕ → Option ℕ) (b : List ℕ) (t : AddressTable) →
        GiveLists result_number (StepsByIndex (exported_at offset b t)) }
    ensures pdb_modules { (b : List ℕ) → GiveLists pdb_number (StepsModules b) }
    ensures pdb_symbols { (b sections : List ℕ) → GiveLists pdb_number (StepsPdbSymbols b sections) }
    ensures long_section_names { (b : List ℕ) (strings : Range) (sections : List SectionTable) →
        GiveLists result_number (StepsByIndex (long_name_by_index b strings sections)) }
{}

/// What a call returns that succeeded, that found nothing, or for which an array of the caller is too small; and the errors of a
/// step of a stack walk.
pub fn constants_of_results()
    ensures done { DONE ≡ 0 }
    ensures nothing { NOTHING ≡ 100 }
    ensures room { ROOM ≡ 101 }
    ensures missing { MISSING ≡ 102 }
    ensures bad_address { BAD_ADDRESS ≡ 103 }
    ensures bad_operation { BAD_OPERATION ≡ 104 }
    ensures not_rising { NOT_RISING ≡ 105 }
    ensures long_chain { LONG_CHAIN ≡ 106 }
    ensures out_of_order { OUT_OF_ORDER ≡ 107 }
{}
