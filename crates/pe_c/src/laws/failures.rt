//! Laws of failures: a call that says why headers, a directory, a debug record or a step are refused says so of those that the call
//! which reads them refuses, and of no others.

ghost use Rattle.std.specs.Prelude.{◌≡◌, ◌+◌, ◌==◌, ℕ, List, Option, Result, false};
ghost use Rattle.pe_core.specs.Refusals.{Refusal};
ghost use Rattle.pe_core.specs.Rows.{rows_at};
ghost use Rattle.pe_core.specs.Sections.{sections_at};
ghost use Rattle.pe_core.specs.declared.header.TheConstants.{COFF_MACHINE_ARM64, COFF_MACHINE_X86_64};
ghost use Rattle.pe_core.specs.declared.section_table.SectionTable.{SectionTable};
ghost use Rattle.pe_directories.specs.BaseRelocations.{first_block, first_relocation};
ghost use Rattle.pe_records.specs.declared.debug.ImageDebugDirectory.{ImageDebugDirectory};
ghost use Rattle.pe_unwind.specs.Links.{Table};
ghost use Rattle.pe_unwind.specs.declared.arm64.function.Arm64RuntimeFunction.{Arm64RuntimeFunction};
ghost use Rattle.calls_unwind.specs.Arm64.{AnswersArm64Code, StepsArm64Codes, arm64_record_of};
ghost use Rattle.calls_directories.specs.BoundImports.{bound_imports_at, first_bound};
ghost use Rattle.calls_directories.specs.Certificates.{certificate_step};
ghost use Rattle.calls_directories.specs.Clr.{clr_header_at};
ghost use Rattle.calls_headers.specs.Coff.{symbol_name_at};
ghost use Rattle.calls_headers.specs.Debug.{characteristics_of, checksum_of, debug_entries_range, embedded_of, features_of, key_of, pdb20_of, pogo_of, repro_of};
ghost use Rattle.calls_failures.specs.DebugFailures.{record_refusal};
ghost use Rattle.calls_directories.specs.DelayImports.{first_library_in, first_of_walk};
ghost use Rattle.calls_base.specs.Directories.{first_in, step_of, table_at, tls_at};
ghost use Rattle.calls_directories.specs.DirectoryRuns.{block_reported, relocation_reported};
ghost use Rattle.calls_failures.specs.DirectoryFailures.{certificate_table, directory_refusal};
ghost use Rattle.calls_directories.specs.Exports.{tables_at};
ghost use Rattle.calls_base.specs.FailureNumbers.{Agrees, AllAgree, DirectoriesAgree, TreesAgree, directory_refused, refused, tree_refused};
ghost use Rattle.calls_failures.specs.Failures.{Explains, first_failure, image_failure, object_section_failures, section_failures, te_failures, te_section_failures};
ghost use Rattle.calls_base.specs.Images.{for_directory, image_at, map_by};
ghost use Rattle.calls_directories.specs.Imports.{import_step, libraries_at, library_step};
ghost use Rattle.calls_directories.specs.LoadConfigs.{load_config_at};
ghost use Rattle.calls_directories.specs.ResourceLeaves.{first_item, items_left, leaves_start};
ghost use Rattle.calls_headers.specs.Headers.{te_image_at, te_section};
ghost use Rattle.calls_failures.specs.UnwindFailures.{LinksEnd};
ghost use Rattle.calls_unwind.specs.Unwinding.{FollowsToRecord, HandsOutCode, HandsOutRecord, StepsCodes, exception_table_at};
ghost use Rattle.calls_unwind.specs.declared.arm64.codes.Arm64Code.{Arm64Code};
ghost use Rattle.calls_unwind.specs.declared.arm64.codes.Arm64CodeWalk.{Arm64CodeWalk};
ghost use Rattle.calls_directories.specs.declared.directories.delay_imports.DelayedFunctions.{DelayedFunctions};
ghost use Rattle.calls_headers.specs.declared.headers.CoffFields.{CoffFields};
ghost use Rattle.calls_base.specs.declared.image.Image.{Image};
ghost use Rattle.calls_directories.specs.declared.names.imports.Imports.{Imports};
ghost use Rattle.calls_directories.specs.declared.names.imports.Libraries.{Libraries};
ghost use Rattle.calls_base.specs.declared.ranges.Range.{Range};
ghost use Rattle.calls_directories.specs.declared.resources.leaves.ResourceLeaves.{ResourceLeaves};
ghost use Rattle.calls_headers.specs.declared.te.TeImage.{TeImage};
ghost use Rattle.calls_unwind.specs.declared.unwinding.Code.{Code};
ghost use Rattle.calls_unwind.specs.declared.unwinding.CodeWalk.{CodeWalk};
ghost use Rattle.calls_unwind.specs.declared.unwinding.UnwindRecord.{UnwindRecord};

/// `pe_c_image_failure` has a failure exactly where `pe_c_image` refuses the headers, with the number of its error; so have
/// `pe_c_sections_failure` where the section headers are refused that `pe_c_sections` reads, also of an object (`object_sections`), or
/// those that `pe_c_te_sections` reads (`te_sections`), by an image that says where they are, and `pe_c_te_failure` where `pe_c_te`
/// refuses the header.
#[tactic(auto, using(calls_failures::proofs::FailureParts::failures_of_images, calls_failures::proofs::FailureParts::failures_of_rows, calls_failures::proofs::FailureParts::failures_of_te_images))]
pub fn failures_are_those_of_the_calls()
    ensures images { (b : List ℕ) (mode : ℕ) → Explains (image_at b mode) (image_failure b mode) }
    ensures sections { (b : List ℕ) (image : Image)
        → Explains (sections_at b image.sections_offset image.number_of_sections) (first_failure (section_failures b image)) }
    ensures te_sections { (b : List ℕ) (te : TeImage)
        → Explains (rows_at (te_section te.rva_offset) 40 b 40 te.number_of_sections) (first_failure (te_section_failures b te)) }
    ensures object_sections { (b : List ℕ) (c : CoffFields)
        → Explains (sections_at b (20 + c.size_of_optional_header) c.number_of_sections)
        (first_failure (object_section_failures b c)) }
    ensures te_images { (b : List ℕ) → Explains (te_image_at b) (first_failure (te_failures b)) }
{}

/// `pe_c_directory_failure` has a failure exactly where the call that reads the directory returns an error, with its number.
#[tactic(auto, using(calls_base::proofs::DirectoryFailures::agree, calls_base::proofs::DirectoryFailures::directories_agree), unfolding(calls_failures::specs::DirectoryFailures::directory_refusal))]
pub fn directory_failures_are_those_of_the_calls()
    ensures exports { (b : List ℕ) (image : Image) (may_map : ℕ → List SectionTable)
        → AllAgree (tables_at b image (map_by image may_map))
        (directory_refusal 0 b image may_map) }
    ensures imports { (b : List ℕ) (image : Image) (may_map : ℕ → List SectionTable)
        → AllAgree (libraries_at image (map_by image may_map))
        (directory_refusal 1 b image may_map) }
    ensures resources { (b : List ℕ) (image : Image) (may_map : ℕ → List SectionTable)
        → AllAgree (leaves_start b image (for_directory may_map image 2))
        (directory_refusal 2 b image may_map) }
    ensures functions { (b : List ℕ) (image : Image) (may_map : ℕ → List SectionTable)
        → image.machine ≡ COFF_MACHINE_X86_64
        → AllAgree (exception_table_at COFF_MACHINE_X86_64 12 b image
        (for_directory may_map image 3) image.mode)
        (directory_refusal 3 b image may_map) }
    ensures arm64_functions { (b : List ℕ) (image : Image) (may_map : ℕ → List SectionTable)
        → (image.machine == COFF_MACHINE_X86_64) ≡ false
        → AllAgree (exception_table_at COFF_MACHINE_ARM64 8 b image
        (for_directory may_map image 3) image.mode)
        (directory_refusal 3 b image may_map) }
    ensures certificates { (b : List ℕ) (image : Image) (may_map : ℕ → List SectionTable)
        → AllAgree (certificate_step b (certificate_table image)).0
        (directory_refusal 4 b image may_map) }
    ensures relocations { (b : List ℕ) (image : Image) (may_map : ℕ → List SectionTable)
        → DirectoriesAgree (table_at 5 b image (for_directory may_map image 5))
        (directory_refusal 5 b image may_map) }
    ensures debug_entries { (b : List ℕ) (image : Image) (may_map : ℕ → List SectionTable)
        → AllAgree (debug_entries_range b image (for_directory may_map image 6) image.mode)
        (directory_refusal 6 b image may_map) }
    ensures tls { (b : List ℕ) (image : Image) (may_map : ℕ → List SectionTable)
        → DirectoriesAgree (tls_at b image (for_directory may_map image 9))
        (directory_refusal 9 b image may_map) }
    ensures load_config { (b : List ℕ) (image : Image) (may_map : ℕ → List SectionTable)
        → DirectoriesAgree (load_config_at b image (for_directory may_map image 10))
        (directory_refusal 10 b image may_map) }
    ensures bound_imports { (b : List ℕ) (image : Image) (may_map : ℕ → List SectionTable)
        → DirectoriesAgree (bound_imports_at b image) (directory_refusal 11 b image may_map) }
    ensures delay_imports { (b : List ℕ) (image : Image) (may_map : ℕ → List SectionTable)
        → DirectoriesAgree (table_at 13 b image (for_directory may_map image 13))
        (directory_refusal 13 b image may_map) }
    ensures clr_header { (b : List ℕ) (image : Image) (may_map : ℕ → List SectionTable)
        → DirectoriesAgree (clr_header_at b image (for_directory may_map image 14))
        (directory_refusal 14 b image may_map) }
{}

/// `pe_c_debug_failure` has a failure exactly where the call that reads the record returns an error, with its number.
#[tactic(auto, using(calls_base::proofs::DirectoryFailures::agree), unfolding(calls_failures::specs::DebugFailures::record_refusal))]
pub fn debug_failures_are_those_of_the_calls()
    ensures symbol_keys { (b : List ℕ) (mode : ℕ) (e : ImageDebugDirectory)
        → AllAgree (key_of b mode e) (record_refusal 0 b mode e) }
    ensures pdb20 { (b : List ℕ) (mode : ℕ) (e : ImageDebugDirectory)
        → AllAgree (pdb20_of b mode e) (record_refusal 1 b mode e) }
    ensures features { (b : List ℕ) (mode : ℕ) (e : ImageDebugDirectory)
        → AllAgree (features_of b mode e) (record_refusal 2 b mode e) }
    ensures characteristics { (b : List ℕ) (mode : ℕ) (e : ImageDebugDirectory)
        → AllAgree (characteristics_of b mode e) (record_refusal 3 b mode e) }
    ensures repro { (b : List ℕ) (mode : ℕ) (e : ImageDebugDirectory)
        → AllAgree (repro_of b mode e) (record_refusal 4 b mode e) }
    ensures pogo { (b : List ℕ) (mode : ℕ) (e : ImageDebugDirectory)
        → AllAgree (pogo_of b mode e) (record_refusal 5 b mode e) }
    ensures embedded { (b : List ℕ) (mode : ℕ) (e : ImageDebugDirectory)
        → AllAgree (embedded_of b mode e) (record_refusal 6 b mode e) }
    ensures checksums { (b : List ℕ) (mode : ℕ) (e : ImageDebugDirectory)
        → AllAgree (checksum_of b mode e) (record_refusal 7 b mode e) }
{}

/// A call that says why a step is refused, or what is read by its key, says so exactly where the call that makes the step or reads it
/// returns an error, with its number. Where a definition says what a step returns, both calls have that one: the clause says that the
/// number is its refusal's. Where a relation does, it is of any two answers; and the RVA at which links end, by which the numbers of
/// unwind records are, is one.
#[tactic(auto, using(calls_failures::proofs::UnwindFailures::links_end_once, calls_base::proofs::DirectoryFailures::agree, calls_base::proofs::DirectoryFailures::directories_agree, calls_base::proofs::DirectoryFailures::trees_agree))]
pub fn step_failures_are_those_of_the_calls()
    ensures libraries { (offset : ℕ → Option ℕ) (w : ℕ) (b : List ℕ) (walk : Libraries)
        → AllAgree (library_step offset w b walk).0 (refused (library_step offset w b walk).0) }
    ensures imports { (offset : ℕ → Option ℕ) (w : ℕ) (b : List ℕ) (walk : Imports)
        → AllAgree (import_step offset w b walk).0 (refused (import_step offset w b walk).0) }
    ensures unwind_records { (b : List ℕ) (links : Result Table Refusal) (a : ℕ) (answer : Result UnwindRecord Refusal)
        → FollowsToRecord b links a answer
        → (number : ℕ) (old new : UnwindRecord) → HandsOutRecord b links a number old new → Agrees number (refused answer) }
    ensures links { (t : Table) (u : ℕ) (x y : Option ℕ) → LinksEnd t u x → LinksEnd t u y → x ≡ y }
    ensures codes { (b : List ℕ) (walk after : CodeWalk) (answer : Result (Option Code) Refusal)
        → StepsCodes b walk answer after
        → (v : CodeWalk) (number : ℕ) (old new : Code) → HandsOutCode b walk v number old new → Agrees number (refused answer) }
    ensures leaves { (b : List ℕ) (offset : ℕ → Option ℕ) (walk : ResourceLeaves)
        → TreesAgree (first_item (items_left b offset walk)) (tree_refused (first_item (items_left b offset walk))) }
    ensures certificates { (b : List ℕ) (walk : Range)
        → AllAgree (certificate_step b walk).0 (refused (certificate_step b walk).0) }
    ensures blocks { (b : List ℕ) (walk : Range)
        → DirectoriesAgree (step_of (block_reported walk) (first_in first_block b walk))
        (directory_refused (step_of (block_reported walk) (first_in first_block b walk))) }
    ensures relocations { (page : ℕ) (b : List ℕ) (walk : Range)
        → DirectoriesAgree (step_of relocation_reported (first_in (first_relocation page) b walk))
        (directory_refused (step_of relocation_reported (first_in (first_relocation page) b walk))) }
    ensures arm64_records { (offset : ℕ → Option ℕ) (b : List ℕ) (image : Image) (f : Arm64RuntimeFunction)
        → AllAgree (arm64_record_of offset b image f) (refused (arm64_record_of offset b image f)) }
    ensures arm64_codes { (b : List ℕ) (walk after : Arm64CodeWalk) (answer : Result (Option Arm64Code) Refusal)
        → StepsArm64Codes b walk answer after
        → (v : Arm64CodeWalk) (number : ℕ) (old new : Arm64Code) → AnswersArm64Code b walk v number old new
        → Agrees number (refused answer) }
    ensures delay_imports { (offset : ℕ → Option ℕ) (b : List ℕ) (image : Image) (walk : Range)
        → DirectoriesAgree (step_of (λ x. x) (first_library_in offset b image walk))
        (directory_refused (step_of (λ x. x) (first_library_in offset b image walk))) }
    ensures delayed_functions { (offset : ℕ → Option ℕ) (b : List ℕ) (image : Image) (walk : DelayedFunctions)
        → DirectoriesAgree (step_of (λ x. x) (first_of_walk offset b image walk))
        (directory_refused (step_of (λ x. x) (first_of_walk offset b image walk))) }
    ensures bound_imports { (b : List ℕ) (table walk : Range)
        → DirectoriesAgree (step_of (λ x. x) (first_bound b table walk))
        (directory_refused (step_of (λ x. x) (first_bound b table walk))) }
    ensures symbol_names { (b : List ℕ) (table strings : Range) (index : ℕ)
        → AllAgree (symbol_name_at b table strings index) (refused (symbol_name_at b table strings index)) }
{}
