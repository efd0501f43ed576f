//! Laws over the definitions of `specs/`. Each is the contract of a function that does nothing, so that a caller's
//! proof can cite it by calling the function.

ghost use Rattle.std.specs.List.{AllZip};
ghost use Rattle.std.specs.Prelude.{◌≡◌, ℕ, ◌+◌, List, Option, Ok, Err, IfSome, ◌⊎◌, ◌*◌, ◌%◌, ◌^◌, ◌<◌, ◌≤◌, length, Some, Result, true, false, [], ◌∷◌, ◌++◌, ◌≢◌, ◌↔◌, map};
ghost use Rattle.calls_unwind.specs.Arm64.{StepsArm64Codes, arm64_function_in, arm64_walk_at, flat_arm64_item, flat_info, flat_scope_at, left_of_stream};
ghost use Rattle.calls_directories.specs.Certificates.{StepsCertificates, ReportsCertificate, listed};
ghost use Rattle.calls_headers.specs.Debug.{StepsPogoEntries, entries_reported};
ghost use Rattle.calls_directories.specs.ExportAddresses.{address_table, addresses_in, exported_with, exported_at};
ghost use Rattle.calls_directories.specs.Exports.{StepsExports, count_of, tables_or_short, reported_entry, reported_from, walk_over, with_tables};
ghost use Rattle.pe_c.specs.ImageOfCalls.{IsImageOfCalls, mode_of, AreLibrariesOfCalls};
ghost use Rattle.calls_base.specs.Images.{image_at, map_of_image};
ghost use Rattle.calls_base.specs.Modes.{options_of};
ghost use Rattle.calls_directories.specs.Imports.{libraries_at};
ghost use Rattle.calls_directories.specs.Parts.{HasTables, ImportsInTurn, ReportsExport, ReportsLibraries, ReportsLibrariesUntil, import_records_at};
ghost use Rattle.calls_unwind.specs.Plans.{HandsOutAfter, ReturnsInTurn, ReportsUnwindRecord, ending_of, plan_from};
ghost use Rattle.calls_base.specs.Ranges.{IsPart, IsRange, bytes_at};
ghost use Rattle.calls_directories.specs.ResourceLeaves.{IsNameOf, name_reported};
ghost use Rattle.calls_headers.specs.Headers.{rich_entry_at};
ghost use Rattle.calls_base.specs.Runs.{ReturnsItems};
ghost use Rattle.calls_write.specs.Signing.{CoversDigest, digest_at, headers_of};
ghost use Rattle.calls_unwind.specs.Unwinding.{StepsCodes, exception_table_at, image_exceptions, links_at, flat_item, flat_record, function_in, code_stream_at};
ghost use Rattle.calls_directories.specs.Versions.{ReportsFixed, ReportsManifest, ReportsValue};
ghost use Rattle.calls_base.specs.Walks.{StepsEntries, walk_items, indexed};
ghost use Rattle.calls_unwind.specs.declared.arm64.codes.Arm64CodeWalk.{Arm64CodeWalk};
ghost use Rattle.calls_directories.specs.declared.directories.certificates.Certificate.{Certificate};
ghost use Rattle.calls_directories.specs.declared.names.export_addresses.AddressTable.{AddressTable};
ghost use Rattle.calls_directories.specs.declared.names.exports.Export.{Export};
ghost use Rattle.calls_directories.specs.declared.names.exports.Exports.{Exports};
ghost use Rattle.calls_base.specs.declared.image.Image.{Image};
ghost use Rattle.calls_directories.specs.declared.names.imports.Libraries.{Libraries};
ghost use Rattle.calls_directories.specs.declared.names.imports.Library.{Library};
ghost use Rattle.calls_unwind.specs.declared.unwinding.plan.Plan.{Plan};
ghost use Rattle.calls_base.specs.declared.ranges.Range.{Range};
ghost use Rattle.calls_write.specs.declared.signing.Digest.{Digest};
ghost use Rattle.calls_unwind.specs.declared.unwinding.CodeWalk.{CodeWalk};
ghost use Rattle.calls_unwind.specs.declared.unwinding.UnwindRecord.{UnwindRecord};
ghost use Rattle.pe_core.specs.Bytes.{AreBytes, holds};
ghost use Rattle.pe_core.specs.ExportAddresses.{AddressesView, address_with, forwarder_text};
ghost use Rattle.pe_core.specs.Exports.{ExportDataView, export_at, export_data_at, exports};
ghost use Rattle.pe_core.specs.Header.{HeaderView};
ghost use Rattle.pe_core.specs.Imports.{ImportRecordView};
ghost use Rattle.pe_core.specs.Refusals.{CertificateTable, Memory, Refusal, outcome};
ghost use Rattle.pe_core.specs.Sections.{sections_at};
ghost use Rattle.pe_core.specs.declared.data_directories.DataDirectory.{DataDirectory};
ghost use Rattle.pe_core.specs.declared.error.Error.{Error};
ghost use Rattle.pe_core.specs.declared.section_table.SectionTable.{SectionTable};
ghost use Rattle.pe_core.specs.declared.options.ParseOptions.{ParseOptions};
ghost use Rattle.pe_image.specs.Core.{AreLibrariesOf};
ghost use Rattle.pe_image.specs.Image.{ImageView, IsImage};
ghost use Rattle.pe_plan.specs.Plans.{PlansFrom};
ghost use Rattle.pe_records.specs.Certificates.{CertificateView, certificate_at};
ghost use Rattle.pe_records.specs.DebugDirectory.{debug_entry_at};
ghost use Rattle.pe_records.specs.Pogo.{Entries, Entry};
ghost use Rattle.pe_resource.specs.Leaves.{name_units};
ghost use Rattle.pe_resource.specs.declared.entry.ResourceEntry.{ResourceEntry};
ghost use Rattle.pe_unwind.specs.Arm64Functions.{arm64_functions};
ghost use Rattle.pe_unwind.specs.Arm64Record.{Arm64InfoView, info_at};
ghost use Rattle.pe_unwind.specs.Arm64Tiling.{Tiles};
ghost use Rattle.pe_unwind.specs.CodeStream.{AreItems};
ghost use Rattle.pe_unwind.specs.ExceptionTable.{ExceptionView};
ghost use Rattle.pe_unwind.specs.FunctionTable.{functions};
ghost use Rattle.pe_unwind.specs.Links.{Table, links_of};
ghost use Rattle.pe_unwind.specs.Offsets.{handler_data_of};
ghost use Rattle.pe_unwind.specs.ScopeTable.{scope_at};
ghost use Rattle.pe_unwind.specs.UnwindRecord.{UnwindInfoView, unwind_record, unwind_tests};
ghost use Rattle.pe_unwind.specs.declared.arm64.codes.Arm64UnwindCodeData.{Arm64UnwindCodeData};
ghost use Rattle.pe_unwind.specs.declared.function_table.RuntimeFunction.{RuntimeFunction};
ghost use Rattle.pe_unwind.specs.declared.unwind_code.UnwindCode.{UnwindCode};
ghost use Rattle.pe_core.specs.declared.header.TheConstants.{COFF_MACHINE_X86_64};
ghost use Rattle.pe_c.specs.DebugLaws.{ReadsFixed, ReadsText};

pub mod coff;
pub mod debug;
pub mod directories;
pub mod dumps;
pub mod failures;
pub mod frames;
pub mod image_writes;
pub mod indexes;
pub mod lists;
pub mod signatures;
pub mod walks;

/// For all bytes and options the results of the calls on an image, in the order and by the modes of `PE`, are exactly the
/// fields of `PE::parse_with_opts` of pe_image, or its first error: what the calls return decides the image, and it is that.
/// `IsImageOfCalls` names the calls of each field. No slice has more bytes than 2^63 - 1.
pub fn image_of_calls()
    ensures { (b : List ℕ) (o : ParseOptions) (r : Result ImageView Refusal) →
        AreBytes b → length b ≤ 2 ^ 63 → (IsImage b o r ↔ IsImageOfCalls b o r) }
{
    pe_image::laws::images_are_one();
    pe_resource::laws::resources::resources_have_an_answer();
    pe_resource::laws::resources::resources_have_one_answer();
}

/// The libraries of such an image, which `HasLibraries` of pe_image says of `PE`, are exactly the names of the libraries that all
/// steps of `pe_c_next_library` return, sorted by their bytes, each once: none where the options leave the imports out, or there is
/// no import directory. The image and its sections are those that `pe_c_image` and `pe_c_sections` return.
#[tactic(auto, using(crate::proofs::LibrariesOfCalls::libraries_are_of_calls))]
pub fn libraries_of_calls()
    ensures { (b : List ℕ) (o : ParseOptions) (image : Image) (sections : List SectionTable)
        (x : ImageView) (libraries : List (List ℕ)) → AreBytes b → length b ≤ 2 ^ 63 →
        image_at b (mode_of o) ≡ Ok image →
        sections_at b image.sections_offset image.number_of_sections ≡ Ok sections →
        IsImage b o (Ok x) → (AreLibrariesOf x.import_data libraries
        ↔ AreLibrariesOfCalls b o image sections libraries) }
{
    pe_resource::laws::resources::resources_have_an_answer();
}

/// The ranges of an unwind record lie in the bytes, and are its codes and its handler's data.
pub fn ranges_of_records()
    ensures codes { (b : List ℕ) (p : ℕ) (i : UnwindInfoView) → outcome (unwind_tests b p)
        (unwind_record b p) ≡ Ok i → IsRange b (flat_record b p i).codes.left i.codes }
    ensures handler { (b : List ℕ) (p : ℕ) (i : UnwindInfoView) →
        outcome (unwind_tests b p) (unwind_record b p) ≡ Ok i →
        IfSome i.handler (λ h. IsRange b (flat_record b p i).handler_data (handler_data_of h)) }
{}

/// The ranges of an ARM64 unwind record lie in the bytes, and are its epilog scopes, its codes and its handler's data.
pub fn ranges_of_arm64_records()
    ensures scopes { (b : List ℕ) (p : ℕ) (i : Arm64InfoView) →
        info_at b p ≡ Ok i → IsRange b (flat_info b p i).scopes i.scopes }
    ensures codes { (b : List ℕ) (p : ℕ) (i : Arm64InfoView) →
        info_at b p ≡ Ok i → IsRange b (flat_info b p i).codes i.codes }
    ensures handler { (b : List ℕ) (p : ℕ) (i : Arm64InfoView) → info_at b p ≡ Ok i →
        IfSome i.handler (λ h. IsRange b (flat_info b p i).handler_data h.bytes) }
{}

/// The range that `pe_c_function_table` returns leads to the links of the image's exception data: plans and records by it are
/// those of the image, as pe_unwind and pe_plan define them.
#[tactic(auto, using(calls_unwind::proofs::TableLinks::links_of_tables))]
pub fn function_tables_have_their_links()
    ensures { (b : List ℕ) (image : Image) (sections : List SectionTable) (table : Range) →
        exception_table_at COFF_MACHINE_X86_64 12 b image sections image.mode ≡ Ok (Some table) →
        (v : ExceptionView) × (image_exceptions b image sections image.mode ≡ Ok v)
        × (v.content ≡ b)
        × (links_at (map_of_image image sections) b table ≡ Ok (links_of v sections (options_of image.mode))) }
{}

/// The plan that `pe_c_plan_from` of `pe.h` starts for a function of a table, one record a step, is that of pe_plan. Where a step
/// returns nothing, the records before it are those of the function's plan, one for one. The error of a step is the error
/// of the plan, so it is a cycle only where the function's chain never ends. Each step returns a record, or ends as the
/// plan of pe_plan does. Where the table is not inside the bytes, the first step returns that error.
pub fn plans_are_those_of_functions()
    ensures records { (b : List ℕ) (t : Table) (f : RuntimeFunction) (given : List UnwindRecord) →
        HandsOutAfter b (Ok t) f.unwind_info_address given (Ok None) →
        (is : List UnwindInfoView) × PlansFrom t b f (Ok is)
        × AllZip (ReportsUnwindRecord b) given is }
    ensures refused { (b : List ℕ) (t : Table) (f : RuntimeFunction) (given : List UnwindRecord)
        (refusal : Refusal) → HandsOutAfter b (Ok t) f.unwind_info_address given (Err refusal) →
        (refusal ≢ Memory) × PlansFrom t b f (Err refusal) }
    ensures endings { (b : List ℕ) (t : Table) (f : RuntimeFunction)
        (plan : Result (List UnwindInfoView) Refusal) (given : List UnwindRecord)
        (last : Result (Option UnwindRecord) Refusal) → PlansFrom t b f plan →
        plan ≢ Err Memory → HandsOutAfter b (Ok t) f.unwind_info_address given last →
        (last ≡ ending_of plan) ⊎ ((r : UnwindRecord) × (last ≡ Ok (Some r))) }
    ensures without_table { (b : List ℕ) (unwind : ℕ) (refusal : Refusal)
        (given : List UnwindRecord) (last : Result (Option UnwindRecord) Refusal) →
        HandsOutAfter b (Err refusal) unwind given last → (given ≡ []) × (last ≡ Err refusal) }
{
    pe_unwind::laws::x64::one_record_of_addresses();
}

/// A plan that `pe_c_plan_from` starts returns at most three times as many records as there are RVAs: so it comes to
/// the root, or to an error.
#[tactic(auto, using(calls_unwind::proofs::PlanEnds::plans_end))]
pub fn plans_end()
    ensures { (b : List ℕ) (links : Result Table Refusal) (unwind : ℕ)
        (given : List UnwindRecord) (p : Plan) → AreBytes b → unwind < 2 ^ 32 →
        ReturnsInTurn b links (plan_from unwind) given p → length given ≤ 3 * 2 ^ 32 }
{}

/// The functions of a table by their indices, from 0 on, are its whole entries in their order, and there are no others.
#[tactic(auto, using(calls_unwind::proofs::Indices::functions_by_index, calls_unwind::proofs::Indices::arm64_functions_by_index))]
pub fn indices_give_the_functions()
    ensures x64 { (b : List ℕ) (table : Range) (bytes : List ℕ) (i : ℕ) →
        bytes_at b table ≡ Ok bytes → function_in b table i ≡ indexed (functions bytes) i }
    ensures arm64 { (b : List ℕ) (table : Range) (bytes : List ℕ) (i : ℕ) →
        bytes_at b table ≡ Ok bytes →
        arm64_function_in b table i ≡ indexed (arm64_functions bytes) i }
{}

/// A walk over entries of one width returns those of its range, one a step and in their order: each whole entry, one
/// error where the last is truncated, and then nothing. A range that is not inside the bytes is one error alone. So the
/// walks over scope tables, over epilog scopes, over debug entries and over those of a Rich header leave nothing out, and end.
#[tactic(auto, using(calls_stacks::proofs::TableRuns::scopes_in_turn, calls_stacks::proofs::TableRuns::arm64_scopes_in_turn, calls_stacks::proofs::TableRuns::debug_entries_in_turn, calls_stacks::proofs::TableRuns::rich_entries_in_turn))]
pub fn walks_give_their_entries()
    ensures scopes { (b : List ℕ) (walk : Range) →
        ReturnsItems (StepsEntries scope_at 16 b) walk (walk_items scope_at 16 b walk) }
    ensures arm64_scopes { (b : List ℕ) (walk : Range) →
        ReturnsItems (StepsEntries flat_scope_at 4 b) walk (walk_items flat_scope_at 4 b walk) }
    ensures debug_entries { (b : List ℕ) (walk : Range) → ReturnsItems
        (StepsEntries (debug_entry_at 0) 28 b) walk (walk_items (debug_entry_at 0) 28 b walk) }
    ensures rich_entries { (key : ℕ) (b : List ℕ) (walk : Range) → ReturnsItems
        (StepsEntries (rich_entry_at key) 8 b) walk (walk_items (rich_entry_at key) 8 b walk) }
{}

/// A walk over unwind codes returns, one a step, the items of the stream of its bytes, and then nothing: the codes that
/// follow one another, and one error where no code starts what is left. So the walk of an unwind record returns the
/// codes of the record. A range that is not inside the bytes is one error alone.
#[tactic(auto, using(calls_unwind::proofs::CodeRuns::codes_in_turn, calls_unwind::proofs::CodeRuns::codes_of_record_in_turn, calls_unwind::proofs::CodeRuns::lies_once))]
pub fn walks_give_the_codes()
    ensures items { (b : List ℕ)
        (walk : CodeWalk) (bytes : List ℕ) (items : List (Result UnwindCode Error)) →
        bytes_at b walk.left ≡ Ok bytes → AreItems (code_stream_at bytes walk) items →
        ReturnsItems (StepsCodes b) walk (map flat_item items) }
    ensures of_records { (b : List ℕ)
        (p : ℕ) (i : UnwindInfoView) (items : List (Result UnwindCode Error)) →
        outcome (unwind_tests b p) (unwind_record b p) ≡ Ok i →
        AreItems (code_stream_at i.codes (flat_record b p i).codes) items →
        ReturnsItems (StepsCodes b) (flat_record b p i).codes (map flat_item items) }
    ensures outside { (b : List ℕ) (walk : CodeWalk) (refusal : Refusal) →
        bytes_at b walk.left ≡ Err refusal → ReturnsItems (StepsCodes b) walk (Err refusal ∷ []) }
{}

/// A walk over ARM64 unwind codes returns, one a step, the items that tile its stream from its start on, and then
/// nothing. So the walk over the codes of an unwind record returns those of the record. Bytes that can be no stream are
/// one error alone.
#[tactic(auto, using(calls_unwind::proofs::Arm64CodeRuns::codes_in_turn, calls_unwind::proofs::Arm64CodeRuns::codes_of_info_in_turn))]
pub fn walks_give_the_arm64_codes()
    ensures items { (b : List ℕ) (codes : Range) (start : ℕ)
        (stream : List ℕ) (walk : Arm64CodeWalk) (items : List (Result Arm64UnwindCodeData Error)) →
        bytes_at b codes ≡ Ok stream →
        arm64_walk_at b codes start ≡ Ok walk → Tiles stream start items →
        ReturnsItems (StepsArm64Codes b) walk (map flat_arm64_item items) }
    ensures of_records { (b : List ℕ) (p : ℕ) (i : Arm64InfoView) (start : ℕ) (walk : Arm64CodeWalk)
        (items : List (Result Arm64UnwindCodeData Error)) → info_at b p ≡ Ok i →
        arm64_walk_at b (flat_info b p i).codes start ≡ Ok walk → Tiles i.codes start items →
        ReturnsItems (StepsArm64Codes b) walk (map flat_arm64_item items) }
    ensures outside { (b : List ℕ) (walk : Arm64CodeWalk) (refusal : Refusal) →
        left_of_stream b walk ≡ Err refusal →
        ReturnsItems (StepsArm64Codes b) walk (Err refusal ∷ []) }
{}

/// A walk over the entries of a POGO record returns, one a step, the entries of the stream of its bytes, and then
/// nothing; the range of each name follows the entry's two numbers. A range that is not inside the bytes is one error
/// alone.
#[tactic(auto, using(calls_headers::proofs::PogoRuns::entries_in_turn, calls_headers::proofs::PogoRuns::lies_once))]
pub fn walks_give_the_pogo_entries()
    ensures items { (b : List ℕ) (walk : Range)
        (bytes : List ℕ) (items : List (Result Entry Refusal)) → bytes_at b walk ≡ Ok bytes →
        Entries bytes items → ReturnsItems (StepsPogoEntries b) walk (entries_reported walk items) }
    ensures outside { (b : List ℕ) (walk : Range) (refusal : Refusal) →
        bytes_at b walk ≡ Err refusal → ReturnsItems (StepsPogoEntries b) walk (Err refusal ∷ []) }
{}

/// A walk over certificates returns, one a step and in their order, exactly the certificates that its table lists, each
/// with the range of its body, and then nothing; where reading the table fails, it returns certificates and then that
/// error.
#[tactic(auto, using(calls_stacks::proofs::CertificateRuns::certificates_in_turn, calls_stacks::proofs::CertificateRuns::refused_in_turn))]
pub fn walks_give_the_certificates()
    ensures certificates { (b : List ℕ) (walk : Range) (cs : List CertificateView) →
        listed b walk ≡ Ok cs → (reported : List Certificate)
        × ReturnsItems (StepsCertificates b) walk (map (λ x. Ok x) reported)
        × AllZip (ReportsCertificate b) reported cs }
    ensures refused { (b : List ℕ) (walk : Range) (refusal : Refusal) →
        listed b walk ≡ Err refusal → (reported : List Certificate) × (cs : List CertificateView)
        × ReturnsItems (StepsCertificates b) walk (map (λ x. Ok x) reported ++ Err refusal ∷ [])
        × AllZip (ReportsCertificate b) reported cs }
{}

/// The ranges of a digest that `pe_c_digest_ranges` returns have, one after the other, the bytes that pe_sign defines the
/// digest of the image to cover, and the same zeros follow. The headers are those of the bytes.
#[tactic(auto, using(calls_write::proofs::DigestParts::digest_covers))]
pub fn ranges_of_digests_are_what_they_cover()
    ensures { (b : List ℕ) (image : Image) (d : Digest) → digest_at b image ≡ Ok d →
        (h : HeaderView) × ((headers_of b image ≡ Ok h) × CoversDigest b h d) }
{}

/// The ranges of a walk over exports are the tables of the export data, and what the walk returns for an entry of the
/// name table is the export that the entry has.
#[tactic(auto, using(calls_directories::proofs::ExportParts::reports))]
pub fn walks_report_the_exports()
    ensures tables { (offset : ℕ → Option ℕ) (b : List ℕ) (rva : ℕ) (directory : DataDirectory)
        (d : ExportDataView) → export_data_at offset b rva ≡ Ok d →
        HasTables b (walk_over offset directory d) d }
    ensures exports { (offset : ℕ → Option ℕ) (b : List ℕ) (directory : DataDirectory)
        (d : ExportDataView) (i : ℕ) → ReportsExport b
        (reported_entry offset b directory (with_tables d.names d.ordinals d.addresses) i)
        (export_at offset b d i) }
{}

/// The address table of an export directory has the range of the directory's addresses and that of its name, and each of
/// its entries that of a forwarder's text. The index that a walk over exports returns with a name is that of the entry
/// which has the export's RVA; where both were read of one directory, the two say the same of whether it is a forwarder and of
/// where its text is.
#[tactic(auto, using(calls_directories::proofs::AddressEntries::entries))]
pub fn exports_by_index_are_those_by_name()
    ensures addresses { (offset : ℕ → Option ℕ) (b : List ℕ) (rva : ℕ) (directory : DataDirectory)
        (d : ExportDataView) → export_data_at offset b rva ≡ Ok d →
        IsRange b (address_table offset b directory d).addresses d.addresses }
    ensures name { (offset : ℕ → Option ℕ) (b : List ℕ) (rva : ℕ) (directory : DataDirectory)
        (d : ExportDataView) → export_data_at offset b rva ≡ Ok d →
        IsPart b (address_table offset b directory d).name d.name }
    ensures forwarders { (offset : ℕ → Option ℕ) (b : List ℕ) (t : AddressesView) (i rva : ℕ) →
        IsPart b (exported_with offset b (address_with t i rva)).forwarder
        (forwarder_text offset b t.directory rva) }
    ensures named { (offset : ℕ → Option ℕ) (b : List ℕ) (directory : DataDirectory)
        (d : ExportDataView) (t : AddressTable) (i : ℕ) (x : Export) →
        bytes_at b t.addresses ≡ Ok d.addresses →
        reported_entry offset b directory d i ≡ Some x → exported_at offset b t x.index ≡ Ok (Some
        (exported_with offset b (address_with (addresses_in t d.addresses) x.index x.rva))) }
    ensures named_forwarders { (offset : ℕ → Option ℕ) (b : List ℕ) (d : ExportDataView)
        (t : AddressTable) (i : ℕ) (x : Export) →
        reported_entry offset b t.directory d i ≡ Some x → x.is_forwarder ≡ (exported_with offset b
        (address_with (addresses_in t d.addresses) x.index x.rva)).is_forwarder }
    ensures named_texts { (offset : ℕ → Option ℕ) (b : List ℕ) (d : ExportDataView)
        (t : AddressTable) (i : ℕ) (x : Export) →
        reported_entry offset b t.directory d i ≡ Some x → x.forwarder ≡ (exported_with offset b
        (address_with (addresses_in t d.addresses) x.index x.rva)).forwarder }
{}

/// A walk over the libraries of an image returns, one a step and in their order, the records of its import directory,
/// and then nothing; where reading the directory fails, it returns libraries and then that error. The walk over each
/// library's imports returns the record's imports in the same way. The imports of records are those of each record in
/// turn.
#[tactic(auto, using(crate::proofs::ImportRuns::libraries_in_turn, crate::proofs::ImportRuns::refused_in_turn, crate::proofs::ImportRuns::imports_in_turn))]
pub fn walks_report_the_imports()
    ensures libraries { (b : List ℕ) (image : Image) (sections : List SectionTable)
        (walk : Libraries) (rs : List ImportRecordView) → AreBytes b → length b ≤ 2 ^ 63 →
        libraries_at image (map_of_image image sections) ≡ Ok (Some walk) →
        import_records_at b image sections ≡ Ok rs →
        (reported : List Library)
        × ReportsLibraries b image sections walk (map (λ x. Ok x) reported) reported rs }
    ensures refused { (b : List ℕ) (image : Image) (sections : List SectionTable)
        (walk : Libraries) (refusal : Refusal) → AreBytes b → length b ≤ 2 ^ 63 →
        libraries_at image (map_of_image image sections) ≡ Ok (Some walk) →
        import_records_at b image sections ≡ Err refusal →
        ReportsLibrariesUntil b image sections walk refusal }
    ensures in_turn { ImportsInTurn }
{}

/// A walk over exports returns, one a step and in their order, the exports that the entries of its name table have from
/// its next index on, and then nothing. So the walk over an export directory returns exactly the exports that the
/// directory lists. Where entries are left of tables that are not inside the bytes it returns one error alone.
#[tactic(auto, using(calls_directories::proofs::ExportRuns::exports_in_turn, calls_directories::proofs::ExportRuns::lies_once))]
pub fn walks_give_the_exports()
    ensures entries { (offset : ℕ → Option ℕ) (b : List ℕ) (walk : Exports) (d : ExportDataView) →
        tables_or_short b walk ≡ Ok d → ReturnsItems (StepsExports offset b) walk
        (map (λ x. Ok x)
        (reported_from (reported_entry offset b walk.directory d) walk.next (count_of walk))) }
    ensures directory { (offset : ℕ → Option ℕ) (b : List ℕ) (rva : ℕ) (directory : DataDirectory)
        (d : ExportDataView) → export_data_at offset b rva ≡ Ok d → (reported : List Export)
        × ReturnsItems (StepsExports offset b) (walk_over offset directory d) (map (λ x. Ok x) reported)
        × AllZip (λ x e. ReportsExport b (Some x) (Some e)) reported (exports offset b d) }
    ensures outside { (offset : ℕ → Option ℕ) (b : List ℕ) (walk : Exports) (refusal : Refusal) →
        walk.next < count_of walk → tables_or_short b walk ≡ Err refusal →
        ReturnsItems (StepsExports offset b) walk (Err refusal ∷ []) }
{}

/// Where the resources of an image can be read, what calls return of their manifest and version information is what
/// they hold, and the ranges lie in the bytes.
pub fn versions_are_those_of_resources()
    ensures manifest { ReportsManifest }
    ensures fixed { ReportsFixed }
    ensures value { ReportsValue }
{}

/// The names that a walk over the leaves of a resource tree reports lie in the bytes, and are the units that the entries of the
/// tree have.
#[tactic(auto, using(calls_directories::proofs::LeafRuns::names_are_theirs))]
pub fn names_of_leaves_are_their_units()
    ensures { (b : List ℕ) (tree : Range) (d : List ℕ)
        (e : ResourceEntry) (units : Option (List ℕ)) → bytes_at b tree ≡ Ok d →
        name_units d e ≡ Ok units → IsNameOf b (name_reported tree.offset e units) units }
{}

/// `pe_c_version_blocks`, and where it is done the call that reads the fixed file information or the value of a name, return those of
/// the first version information: so do `pe_c_fixed_version` (`fixed`) and `pe_c_version_text` (`text`).
pub fn two_calls_read_the_first()
    ensures fixed { ReadsFixed }
    ensures text { ReadsText }
{}
