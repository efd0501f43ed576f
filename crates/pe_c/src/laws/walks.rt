//! Laws of whole walks over directories and resource trees: what calls one after the other return, as C callers get it, is the
//! list that the crates below define, and then nothing. An error is the last item. Each walk has a clause for the walk that a
//! call starts for an image, one for any walk over some bytes, and one for a walk that is not inside the bytes.

ghost use Rattle.std.specs.Prelude.{◌≡◌, ◌+◌, ◌<◌, ◌==◌, ◌∷◌, List, Ok, Err, Result, Some, [], length, map, ℕ, Option};
ghost use Rattle.pe_core.specs.Refusals.{Refusal};
ghost use Rattle.pe_core.specs.Rows.{entry_items};
ghost use Rattle.pe_core.specs.declared.section_table.SectionTable.{SectionTable};
ghost use Rattle.pe_directories.specs.BaseRelocations.{Block, first_block, first_relocation};
ghost use Rattle.pe_directories.specs.BoundImports.{Bound, bound_forwarder_at, bound_table, first_bound_import};
ghost use Rattle.pe_directories.specs.Clr.{Stream, first_stream};
ghost use Rattle.pe_directories.specs.Clr as roots;
ghost use Rattle.pe_directories.specs.DelayImports.{first_delay_import};
ghost use Rattle.pe_directories.specs.DirectoryRefusals.{DirectoryRefusal};
ghost use Rattle.pe_directories.specs.DirectoryRefusals as refusals;
ghost use Rattle.pe_directories.specs.VaTables.{first_va};
ghost use Rattle.pe_directories.specs.Walks.{Items};
ghost use Rattle.pe_directories.specs.declared.base_relocation.BaseRelocation.{BaseRelocation};
ghost use Rattle.pe_directories.specs.declared.clr.ClrHeader.{ClrHeader};
ghost use Rattle.pe_directories.specs.declared.delay_import.DelayImport.{DelayImport};
ghost use Rattle.pe_directories.specs.declared.tls.TlsDirectory.{TlsDirectory};
ghost use Rattle.pe_resource.specs.Leaves.{TreeRefusal};
ghost use Rattle.pe_resource.specs.declared.leaves.ResourceLeaf as trees;
ghost use Rattle.calls_directories.specs.BoundImports.{bound_imports_at};
ghost use Rattle.calls_directories.specs.Clr.{streams_in};
ghost use Rattle.calls_directories.specs.DirectoryRuns.{HasBlock, HasBound, StepsBlocks, StepsBoundImports, StepsCallbacks, StepsDelayLibraries, StepsDelayedFunctions, StepsForwarders, StepsRelocations, StepsStreams, forwarders_reported, relocations_reported, ReturnsBlocks, ReturnsBounds, ReturnsStreams};
ghost use Rattle.calls_base.specs.Images.{directory, map_of_image};
ghost use Rattle.calls_directories.specs.Imports.{StepsImports, StepsLibraries};
ghost use Rattle.calls_directories.specs.LibraryFunctions.{AreFunctionsOf, StepsLibraryFunctions};
ghost use Rattle.calls_directories.specs.LibraryFunctions as delayed;
ghost use Rattle.calls_directories.specs.LibraryImports.{AreImportsOf, StepsLibraryImports, before_first, of_libraries, of_library, then_items};
ghost use Rattle.calls_base.specs.Ranges.{bytes_at};
ghost use Rattle.calls_directories.specs.ResourceLeaves.{StartsTree, StepsLeaves, item_reported, items_left};
ghost use Rattle.calls_base.specs.Runs.{ReturnsItems, read_items};
ghost use Rattle.pe_c.specs.WalkStarts.{ReturnsDelayLibraries, ReturnsFunctions, StartsCallbacks, StartsFunctions, StartsStreams, StartsTable};
ghost use Rattle.calls_directories.specs.declared.directories.base_relocations.RelocationBlock.{RelocationBlock};
ghost use Rattle.calls_directories.specs.declared.directories.bound_imports.BoundImport.{BoundImport};
ghost use Rattle.calls_directories.specs.declared.directories.clr.Metadata.{Metadata};
ghost use Rattle.calls_directories.specs.declared.directories.clr.MetadataStreams.{MetadataStreams};
ghost use Rattle.calls_directories.specs.declared.directories.delay_imports.DelayLibrary.{DelayLibrary};
ghost use Rattle.calls_directories.specs.declared.directories.delay_imports.DelayedFunction.{DelayedFunction};
ghost use Rattle.calls_directories.specs.declared.directories.delay_imports.DelayedFunctions.{DelayedFunctions};
ghost use Rattle.calls_base.specs.declared.image.Image.{Image};
ghost use Rattle.calls_directories.specs.declared.names.imports.Import.{Import};
ghost use Rattle.calls_directories.specs.declared.names.imports.Libraries.{Libraries};
ghost use Rattle.calls_directories.specs.declared.names.imports.Library.{Library};
ghost use Rattle.calls_directories.specs.declared.directories.all_delay_imports.LibraryFunctions.{LibraryFunctions};
ghost use Rattle.calls_directories.specs.declared.names.all_imports.LibraryImports.{LibraryImports};
ghost use Rattle.calls_base.specs.declared.ranges.Range.{Range};
ghost use Rattle.calls_directories.specs.declared.resources.leaves.ResourceLeaves.{ResourceLeaves};

/// A walk over TLS callbacks returns the numbers of its table up to the first zero, and `SHORT` where the bytes end before that.
/// The range without bytes at offset 0 stands for a walk that is over.
#[tactic(auto, using(calls_directories::proofs::NumberLists::callbacks_in_turn, calls_directories::proofs::NumberLists::callbacks_of_image, calls_directories::proofs::NumberLists::callbacks_outside))]
pub fn walks_give_the_callbacks()
    ensures of_image { (b : List ℕ) (image : Image) (sections : List SectionTable)
        (tls : TlsDirectory) (walk : Range) (table : List ℕ)
        (items : List (Result ℕ DirectoryRefusal)) → 0 < length b →
        StartsCallbacks b image sections tls walk table →
        Items (first_va (image.width == 64)) table items →
        ReturnsItems (StepsCallbacks image b) walk items }
    ensures numbers { (b : List ℕ) (image : Image) (walk : Range) (bytes : List ℕ)
        (items : List (Result ℕ DirectoryRefusal)) → 0 < walk.offset + walk.length →
        bytes_at b walk ≡ Ok bytes → Items (first_va (image.width == 64)) bytes items →
        ReturnsItems (StepsCallbacks image b) walk items }
    ensures outside { (b : List ℕ) (image : Image) (walk : Range) (refusal : Refusal) →
        0 < walk.offset + walk.length → bytes_at b walk ≡ Err refusal →
        ReturnsItems (StepsCallbacks image b) walk (Err (refusals.Image refusal) ∷ []) }
{}

/// A walk over base relocations returns the blocks of its bytes, each with its page and the range of its entries. A walk over
/// the entries of a block returns its relocations.
#[tactic(auto, using(calls_directories::proofs::DirectoryLists::relocations_of_block))]
pub fn walks_give_the_relocations()
    ensures of_image { (b : List ℕ) (image : Image) (sections : List SectionTable) (walk : Range)
        (table : List ℕ) (items : List (Result Block DirectoryRefusal)) →
        StartsTable 5 b image sections walk table → Items first_block table items →
        ReturnsBlocks b walk items }
    ensures blocks { (b : List ℕ) (walk : Range) (bytes : List ℕ)
        (items : List (Result Block DirectoryRefusal)) → bytes_at b walk ≡ Ok bytes →
        Items first_block bytes items →
        ReturnsBlocks b walk items }
    ensures blocks_outside { (b : List ℕ) (walk : Range) (refusal : Refusal) →
        bytes_at b walk ≡ Err refusal →
        ReturnsItems (StepsBlocks b) walk (Err (refusals.Image refusal) ∷ []) }
    ensures of_block { (b : List ℕ) (returned : RelocationBlock) (block : Block)
        (items : List (Result BaseRelocation DirectoryRefusal)) → HasBlock b returned block →
        Items (first_relocation block.page_rva) block.entries items →
        ReturnsItems (StepsRelocations returned.page_rva b) returned.entries
        (relocations_reported items) }
    ensures relocations { (page : ℕ) (b : List ℕ) (walk : Range) (bytes : List ℕ)
        (items : List (Result BaseRelocation DirectoryRefusal)) → bytes_at b walk ≡ Ok bytes →
        Items (first_relocation page) bytes items →
        ReturnsItems (StepsRelocations page b) walk (relocations_reported items) }
    ensures relocations_outside { (page : ℕ) (b : List ℕ) (walk : Range) (refusal : Refusal) →
        bytes_at b walk ≡ Err refusal → ReturnsItems (StepsRelocations page b) walk
        (Err (refusals.Image refusal) ∷ []) }
{}

/// A walk over the streams of CLR metadata returns the streams of its headers, as many as are counted, each with the ranges of
/// its name and its bytes.
pub fn walks_give_the_streams()
    ensures of_image { (b : List ℕ) (image : Image) (sections : List SectionTable)
        (header : ClrHeader) (root : Metadata) (metadata : roots.Metadata)
        (items : List (Result Stream DirectoryRefusal)) →
        StartsStreams b image sections header root metadata →
        Items first_stream (metadata.number_of_streams, metadata.stream_headers) items →
        ReturnsStreams b metadata.bytes root.streams items }
    ensures streams { (b : List ℕ) (walk : MetadataStreams) (metadata headers : List ℕ)
        (items : List (Result Stream DirectoryRefusal)) → bytes_at b walk.metadata ≡ Ok metadata →
        bytes_at b walk.headers ≡ Ok headers → Items first_stream (walk.count, headers) items →
        ReturnsStreams b metadata walk items }
    ensures outside { (b : List ℕ) (walk : MetadataStreams) (refusal : DirectoryRefusal) →
        streams_in b walk ≡ Err refusal →
        ReturnsItems (StepsStreams b) walk (Err refusal ∷ []) }
{}

/// A walk over delay imports returns the entries of its bytes up to one without a name, each with the range of its DLL's name
/// and a walk over what is imported of it, up to the first entry of which one of them is refused. That walk returns what the
/// numbers of the DLL's table import, up to the first zero, and to the first that is refused.
#[tactic(auto, using(calls_directories::proofs::NumberLists::functions_in_turn))]
pub fn walks_give_the_delay_imports()
    ensures of_image { (b : List ℕ) (image : Image) (sections : List SectionTable) (walk : Range)
        (table : List ℕ) (items : List (Result DelayImport DirectoryRefusal)) →
        StartsTable 13 b image sections walk table → Items first_delay_import table items →
        ReturnsDelayLibraries (map_of_image image sections) b image walk items }
    ensures libraries { (offset : ℕ → Option ℕ) (b : List ℕ) (image : Image) (walk : Range)
        (bytes : List ℕ) (items : List (Result DelayImport DirectoryRefusal)) →
        bytes_at b walk ≡ Ok bytes → Items first_delay_import bytes items →
        ReturnsDelayLibraries offset b image walk items }
    ensures libraries_outside { (offset : ℕ → Option ℕ) (b : List ℕ) (image : Image)
        (walk : Range) (refusal : Refusal) → bytes_at b walk ≡ Err refusal →
        ReturnsItems (StepsDelayLibraries offset b image) walk (Err (refusals.Image refusal) ∷ []) }
    ensures of_library { (b : List ℕ) (image : Image) (sections : List SectionTable)
        (entry : DelayImport) (walk : DelayedFunctions) (table : List ℕ)
        (items : List (Result ℕ DirectoryRefusal)) → 0 < length b →
        StartsFunctions b image sections entry walk table →
        Items (first_va (image.width == 64)) table items →
        ReturnsFunctions (map_of_image image sections) b image entry.attributes walk items }
    ensures functions { (offset : ℕ → Option ℕ) (b : List ℕ) (image : Image)
        (walk : DelayedFunctions) (bytes : List ℕ) (items : List (Result ℕ DirectoryRefusal)) →
        0 < walk.left.offset + walk.left.length →
        bytes_at b walk.left ≡ Ok bytes → Items (first_va (image.width == 64)) bytes items →
        ReturnsFunctions offset b image walk.attributes walk items }
    ensures functions_outside { (offset : ℕ → Option ℕ) (b : List ℕ) (image : Image)
        (walk : DelayedFunctions) (refusal : Refusal) → 0 < walk.left.offset + walk.left.length →
        bytes_at b walk.left ≡ Err refusal → ReturnsItems (StepsDelayedFunctions offset b image) walk
        (Err (refusals.Image refusal) ∷ []) }
{}

/// A walk over the imports of all libraries returns what the walk over the imports of its library has left, and then, for each
/// library that the walk over libraries has left, what the walk over its imports returns: each import with the name and the index
/// of its library, up to the first error of either walk. So the walk that starts with all libraries returns the
/// imports of all.
#[tactic(auto, using(calls_directories::proofs::LibraryImportRuns::all_in_turn, calls_directories::proofs::LibraryImportRuns::from_first))]
pub fn walks_give_all_imports()
    ensures from_first { (offset : ℕ → Option ℕ) (w : ℕ) (b : List ℕ) (libraries : List (Result Library Refusal))
        (imports : Library → List (Result Import Refusal)) (start : Libraries) →
        ReturnsItems (StepsLibraries offset w b) start libraries →
        AreImportsOf offset w b imports libraries →
        ReturnsItems (StepsLibraryImports offset w b) (before_first start) (of_libraries w b imports 0 libraries) }
    ensures imports { (offset : ℕ → Option ℕ) (w : ℕ) (b : List ℕ) (walk : LibraryImports)
        (own : List (Result Import Refusal)) (libraries : List (Result Library Refusal))
        (imports : Library → List (Result Import Refusal)) →
        ReturnsItems (StepsImports offset w b) walk.imports own →
        ReturnsItems (StepsLibraries offset w b) walk.libraries libraries →
        AreImportsOf offset w b imports libraries →
        ReturnsItems (StepsLibraryImports offset w b) walk (then_items
        (of_library w b walk.library_name walk.begun walk.imports own)
        (of_libraries w b imports walk.begun libraries)) }
{}

/// A walk over the functions of all delay-loaded DLLs returns what the walk over the functions of its DLL has left, and then, for
/// each DLL that the walk over DLLs has left, what the walk over its functions returns: each function with the name and the index
/// of its DLL, up to the first error of either walk. So the walk that starts with all DLLs returns those of all.
#[tactic(auto, using(calls_directories::proofs::LibraryFunctionRuns::all_in_turn, calls_directories::proofs::LibraryFunctionRuns::from_first))]
pub fn walks_give_all_delayed_functions()
    ensures from_first { (offset : ℕ → Option ℕ) (b : List ℕ) (image : Image)
        (libraries : List (Result DelayLibrary DirectoryRefusal))
        (functions : DelayLibrary → List (Result DelayedFunction DirectoryRefusal)) (start : Range) →
        ReturnsItems (StepsDelayLibraries offset b image) start libraries →
        AreFunctionsOf offset b image functions libraries →
        ReturnsItems (StepsLibraryFunctions offset b image) (delayed.before_first start)
        (delayed.of_libraries functions 0 libraries) }
    ensures functions { (offset : ℕ → Option ℕ) (b : List ℕ) (image : Image)
        (walk : LibraryFunctions) (own : List (Result DelayedFunction DirectoryRefusal))
        (libraries : List (Result DelayLibrary DirectoryRefusal))
        (functions : DelayLibrary → List (Result DelayedFunction DirectoryRefusal)) →
        ReturnsItems (StepsDelayedFunctions offset b image) walk.functions own →
        ReturnsItems (StepsDelayLibraries offset b image) walk.libraries libraries →
        AreFunctionsOf offset b image functions libraries →
        ReturnsItems (StepsLibraryFunctions offset b image) walk (then_items
        (delayed.of_library walk.library_name walk.begun own)
        (delayed.of_libraries functions walk.begun libraries)) }
{}

/// A walk over bound imports returns the DLLs of its bytes up to one without a name, each with the ranges of its name and of
/// its forwarders, up to the first whose name is refused. A walk over forwarders returns each of them in the same way.
#[tactic(auto, using(calls_directories::proofs::DirectoryLists::forwarders_in_turn))]
pub fn walks_give_the_bound_imports()
    ensures of_image { (b : List ℕ) (image : Image) (walk : Range) (table : List ℕ)
        (items : List (Result Bound DirectoryRefusal)) →
        bound_imports_at b image ≡ Ok (Some walk) →
        bound_table b (directory image 11) ≡ Ok table → Items first_bound_import table items →
        ReturnsBounds b walk table walk items }
    ensures imports { (b : List ℕ) (table : Range) (directory : List ℕ) (walk : Range)
        (bytes : List ℕ) (items : List (Result Bound DirectoryRefusal)) →
        bytes_at b table ≡ Ok directory → bytes_at b walk ≡ Ok bytes →
        Items first_bound_import bytes items →
        ReturnsBounds b table directory walk items }
    ensures imports_outside { (b : List ℕ) (table walk : Range) (refusal : Refusal) →
        bytes_at b walk ≡ Err refusal → ReturnsItems (StepsBoundImports b table) walk
        (Err (refusals.Image refusal) ∷ []) }
    ensures of_import { (b : List ℕ) (table : Range) (directory : List ℕ) (returned : BoundImport)
        (bound : Bound) → HasBound b directory returned bound →
        ReturnsItems (StepsForwarders b table) returned.forwarders
        (forwarders_reported b table (entry_items bound_forwarder_at 8 bound.forwarders)) }
    ensures forwarders { (b : List ℕ) (table walk : Range) (bytes : List ℕ) →
        bytes_at b walk ≡ Ok bytes → ReturnsItems (StepsForwarders b table) walk
        (forwarders_reported b table (entry_items bound_forwarder_at 8 bytes)) }
    ensures forwarders_outside { (b : List ℕ) (table walk : Range) (refusal : Refusal) →
        bytes_at b walk ≡ Err refusal →
        ReturnsItems (StepsForwarders b table) walk (Err (refusals.Image refusal) ∷ []) }
{}

/// A walk over the leaves of a resource tree returns the leaves that it has left, up to the first error. So the walk that
/// `pe_c_resource_leaves` starts returns those of the tree, whatever maps the RVAs of their contents.
pub fn walks_give_the_leaves()
    ensures of_tree { (b : List ℕ) (image : Image) (sections : List SectionTable)
        (offset : ℕ → Option ℕ)
        (tree : List ℕ × List (Result trees.ResourceLeaf TreeRefusal)) (walk : ResourceLeaves) →
        StartsTree b image sections tree walk → ReturnsItems (StepsLeaves b offset) walk
        (read_items (λ x. Ok x) (map (item_reported b offset walk.tree.offset tree.0) tree.1)) }
    ensures leaves { (b : List ℕ) (offset : ℕ → Option ℕ)
        (walk : ResourceLeaves) → ReturnsItems (StepsLeaves b offset) walk
        (read_items (λ x. Ok x) (items_left b offset walk)) }
{}
