//! Laws of minidumps: what the ranges that calls return have to do with the dump as pe_minidump reads it.

ghost use Rattle.std.specs.Prelude.{◌≡◌, ◌⊎◌, ℕ, List, Some, Ok, true, Result};
ghost use Rattle.std.specs.List.Sorted.{IsNonDecreasing, IsNonDecreasingBy, IsPermutation};
ghost use Rattle.pe_core.specs.Bytes.{range};
ghost use Rattle.pe_core.specs.Header.{HeaderView};
ghost use Rattle.pe_frame.specs.Arm64Walks as arm64;
ghost use Rattle.pe_frame.specs.MemoryLists.{are_inside, ascend};
ghost use Rattle.pe_frame.specs.Walks.{Calls};
ghost use Rattle.pe_frame.specs.declared.memory_list.MemoryPiece.{MemoryPiece};
ghost use Rattle.pe_minidump.specs.Contexts.{context_arm64, context_x64};
ghost use Rattle.pe_minidump.specs.Dumps.{DumpView, located};
ghost use Rattle.pe_minidump.specs.Lists.{counted_list, headed_list};
ghost use Rattle.pe_minidump.specs.Pieces.{bytes_from, piece};
ghost use Rattle.pe_minidump.specs.Records.{handle_descriptor, memory_descriptor, memory_region, module_entry, thread, thread_info, thread_name, unloaded_module};
ghost use Rattle.pe_minidump.specs.Streams.{exception};
ghost use Rattle.pe_minidump.specs.declared.dump.DumpHeader.{DumpHeader};
ghost use Rattle.pe_minidump.specs.declared.exception.Exception.{Exception};
ghost use Rattle.pe_minidump.specs.declared.location.Location.{Location};
ghost use Rattle.pe_minidump.specs.declared.module.Module.{Module};
ghost use Rattle.pe_minidump.specs.declared.stream_type.TheConstants.{EXCEPTION_STREAM, HANDLE_DATA_STREAM, MEMORY64_LIST_STREAM, MEMORY_INFO_LIST_STREAM, MEMORY_LIST_STREAM, MISC_INFO_STREAM, MODULE_LIST_STREAM, SYSTEM_INFO_STREAM, THREAD_INFO_LIST_STREAM, THREAD_LIST_STREAM, THREAD_NAMES_STREAM, UNLOADED_MODULE_LIST_STREAM};
ghost use Rattle.pe_minidump.specs.declared.thread.Thread.{Thread};
ghost use Rattle.pe_stacks.specs.Images.{is_image_of};
ghost use Rattle.pe_stacks.specs.MemoryRuns.{AreRuns, bytes_at};
ghost use Rattle.pe_stacks.specs.ThreadContexts.{thread_context};
ghost use Rattle.calls_stacks.specs.Arm64StackWalks.{arm64_stack_walks};
ghost use Rattle.calls_stacks.specs.Arm64StackWalks as arm64_walks;
ghost use Rattle.calls_stacks.specs.DumpContexts.{any_context, arm64_reported, context_arm64_at, context_x64_at, thread_context_at, x64_reported};
ghost use Rattle.calls_stacks.specs.DumpMemory.{fits, described, memory64_at, piece_reported, range_in};
ghost use Rattle.pe_c.specs.DumpLaws.{IsStreamOf, as_reported, memory_range, all_named, all_placed, with_lines};
ghost use Rattle.calls_stacks.specs.DumpRecords.{any_record, entry_in, exception_at, misc_at, module_reported, name_reported, region_reported, reported_in, system_at};
ghost use Rattle.calls_stacks.specs.Dumps.{DumpHandsOut, DumpHandsOutIf, dump_entry_at, dump_stream_at};
ghost use Rattle.calls_stacks.specs.FrameCalls.{HandsOutFrame};
ghost use Rattle.calls_base.specs.Images.{image_info_of};
ghost use Rattle.calls_base.specs.Ranges.{IsRange};
ghost use Rattle.calls_stacks.specs.StackWalks.{marked, stack_walks};
ghost use Rattle.calls_stacks.specs.declared.arm64.stack_walk.Arm64StackWalk.{Arm64StackWalk};
ghost use Rattle.calls_base.specs.declared.ranges.Range.{Range};
ghost use Rattle.calls_stacks.specs.declared.dump.any_record.AnyRecord.{AnyRecord};
ghost use Rattle.calls_stacks.specs.declared.dump.any_record.TheConstants.{DUMP_ENTRIES};
ghost use Rattle.calls_stacks.specs.declared.dump.contexts.AnyContext.{AnyContext};
ghost use Rattle.calls_stacks.specs.declared.dump.contexts.TheConstants.{ARM64_MACHINE, X64_MACHINE};
ghost use Rattle.calls_stacks.specs.declared.stack.walk.ModuleView.{ModuleView};
ghost use Rattle.calls_stacks.specs.declared.stack.walk.StackWalk.{StackWalk};
ghost use Rattle.pe_pdb.specs.LineIndexes.{AreEntries};
ghost use Rattle.pe_pdb.specs.LineKeys.{line_key};
ghost use Rattle.pe_pdb.specs.Refusals.{PdbRefusal};
ghost use Rattle.pe_pdb.specs.declared.line_entries.CodeLine.{CodeLine};
ghost use Rattle.pe_pdb.specs.declared.line_entries.LineEntry.{LineEntry};
ghost use Rattle.pe_pdb.specs.declared.symbol_entries.SymbolClass.{SymbolClass};
ghost use Rattle.calls_pdb.specs.PdbIndexes.{FindsSymbol, ReadsSymbol, indexed};
ghost use Rattle.calls_pdb.specs.PdbInlined.{inlined_functions};
ghost use Rattle.calls_pdb.specs.PdbLines.{FindsLine, ReadsLine, indexed_lines};
ghost use Rattle.calls_pdb.specs.Pdbs.{stream_numbered, stream_range};
ghost use Rattle.calls_pdb.specs.declared.inlined.PdbInlined.{PdbInlined};
ghost use Rattle.calls_pdb.specs.declared.modules.PdbModule.{PdbModule};
ghost use Rattle.calls_pdb.specs.declared.symbols.PdbSymbol.{PdbSymbol};

/// The range that `pe_c_dump_stream` returns lies in the bytes, and these are the bytes of the stream of the kind, as `Dump::stream`
/// returns it of a dump with this directory.
#[tactic(auto, using(crate::proofs::DumpRanges::is_stream))]
pub fn ranges_of_dumps_are_streams()
    ensures { (b d : List ℕ) (header : DumpHeader) (directory r : Range) (kind : ℕ) →
        located b directory.offset directory.length ≡ Ok d →
        dump_stream_at b directory kind ≡ Ok (Some r) → IsStreamOf b header d kind r }
{}

/// The range of a piece of memory lies in the bytes, also of a truncated file, and these are the bytes that the file has of the
/// piece: so `pe_c_next_frame` takes pieces as they are returned.
#[tactic(auto, using(crate::proofs::DumpRanges::is_inside))]
pub fn pieces_of_dumps_are_inside()
    ensures { (b : List ℕ) (start offset size : ℕ) →
        IsRange b (memory_range (piece_reported b (piece b start offset size)).memory)
        (bytes_from b offset size) }
{}

/// The functions of `pe.h` that return the field of a kind of what `pe_c_dump_record` writes return the record of that kind, and no
/// more: a record of a list by its index, as `pe_c_dump_thread_at` does, and of a stream that has one, as `pe_c_dump_exception`.
pub fn records_are_those_of_their_kinds()
    ensures entries { (b : List ℕ) (r : Range) (i number : ℕ) (old new : AnyRecord) →
        DumpHandsOutIf number old new (any_record DUMP_ENTRIES b r i old) →
        DumpHandsOutIf number old.entry new.entry (dump_entry_at b r i) }
    ensures threads { (b : List ℕ) (r : Range) (i number : ℕ) (old new : AnyRecord) →
        DumpHandsOutIf number old new (any_record THREAD_LIST_STREAM b r i old) →
        DumpHandsOutIf number old.thread new.thread (entry_in (counted_list thread 48) b r i) }
    ensures modules { (b : List ℕ) (r : Range) (i number : ℕ) (old new : AnyRecord) →
        DumpHandsOutIf number old new (any_record MODULE_LIST_STREAM b r i old) →
        DumpHandsOutIf number old.loaded new.loaded (reported_in module_reported (counted_list module_entry 108) b r i) }
    ensures thread_names { (b : List ℕ) (r : Range) (i number : ℕ) (old new : AnyRecord) →
        DumpHandsOutIf number old new (any_record THREAD_NAMES_STREAM b r i old) →
        DumpHandsOutIf number old.thread_name new.thread_name (reported_in name_reported (counted_list thread_name 12) b r i) }
    ensures unloaded { (b : List ℕ) (r : Range) (i number : ℕ) (old new : AnyRecord) →
        DumpHandsOutIf number old new (any_record UNLOADED_MODULE_LIST_STREAM b r i old) →
        DumpHandsOutIf number old.unloaded new.unloaded (entry_in (headed_list unloaded_module 24 12 4) b r i) }
    ensures thread_infos { (b : List ℕ) (r : Range) (i number : ℕ) (old new : AnyRecord) →
        DumpHandsOutIf number old new (any_record THREAD_INFO_LIST_STREAM b r i old) →
        DumpHandsOutIf number old.thread_info new.thread_info (entry_in (headed_list thread_info 64 12 4) b r i) }
    ensures handles { (b : List ℕ) (r : Range) (i number : ℕ) (old new : AnyRecord) →
        DumpHandsOutIf number old new (any_record HANDLE_DATA_STREAM b r i old) →
        DumpHandsOutIf number old.handle new.handle (entry_in (headed_list handle_descriptor 32 16 4) b r i) }
    ensures regions { (b : List ℕ) (r : Range) (i number : ℕ) (old new : AnyRecord) →
        DumpHandsOutIf number old new (any_record MEMORY_INFO_LIST_STREAM b r i old) →
        DumpHandsOutIf number old.region new.region (reported_in region_reported (headed_list memory_region 48 16 8) b r i) }
    ensures memory { (b : List ℕ) (r : Range) (i number : ℕ) (old new : AnyRecord) →
        DumpHandsOutIf number old new (any_record MEMORY_LIST_STREAM b r i old) →
        DumpHandsOutIf number old.memory new.memory (reported_in (described b) (counted_list memory_descriptor 16) b r i) }
    ensures exception { (b : List ℕ) (r : Range) (number : ℕ) (old new : AnyRecord) →
        DumpHandsOutIf number old new (any_record EXCEPTION_STREAM b r 0 old) →
        DumpHandsOut number old.exception new.exception (exception_at b r) }
    ensures system { (b : List ℕ) (r : Range) (number : ℕ) (old new : AnyRecord) →
        DumpHandsOutIf number old new (any_record SYSTEM_INFO_STREAM b r 0 old) →
        DumpHandsOut number old.system new.system (system_at b r) }
    ensures process { (b : List ℕ) (r : Range) (number : ℕ) (old new : AnyRecord) →
        DumpHandsOutIf number old new (any_record MISC_INFO_STREAM b r 0 old) →
        DumpHandsOut number old.process new.process (misc_at b r) }
    ensures memory64 { (b : List ℕ) (r : Range) (number : ℕ) (old new : AnyRecord) →
        DumpHandsOutIf number old new (any_record MEMORY64_LIST_STREAM b r 0 old) →
        DumpHandsOut number old.memory64 new.memory64 (memory64_at b r) }
{}

/// The same of `pe_c_dump_context` and `pe_c_dump_context_arm64` over `pe_c_read_dump_context`: the context of the machine.
pub fn contexts_are_those_of_their_machines()
    ensures x64 { (b : List ℕ) (l : Location) (number : ℕ) (old new : AnyContext) →
        DumpHandsOut number old new (any_context X64_MACHINE b l old) →
        DumpHandsOut number old.x64 new.x64 (context_x64_at b l) }
    ensures arm64 { (b : List ℕ) (l : Location) (number : ℕ) (old new : AnyContext) →
        DumpHandsOut number old new (any_context ARM64_MACHINE b l old) →
        DumpHandsOut number old.arm64 new.arm64 (context_arm64_at b l) }
{}

/// Where `pe_c_dump_exception` returns the exception of a dump, the registers that a thread has by it, as `pe_c_dump_thread_context` of
/// `pe.h` reads them by `pe_c_dump_context`, are those that count by pe_stacks.
#[tactic(auto, using(crate::proofs::DumpStacks::counts))]
pub fn contexts_of_threads_count()
    ensures x64 { (d : DumpView) (t : Thread) (e : Exception) → exception d ≡ Ok (Some e) →
        thread_context_at (context_x64_at d.bytes) t e
        ≡ as_reported x64_reported (thread_context context_x64 d t) }
    ensures arm64 { (d : DumpView) (t : Thread) (e : Exception) → exception d ≡ Ok (Some e) →
        thread_context_at (context_arm64_at d.bytes) t e
        ≡ as_reported arm64_reported (thread_context context_arm64 d t) }
{}

/// `pe_c_is_image_of` says of an image and a module what `is_image_of` of pe_stacks says of its headers and the module.
#[tactic(auto, using(crate::proofs::DumpStacks::image_fits))]
pub fn images_of_modules_are_those_of_stacks()
    ensures { (mode : ℕ) (h : HeaderView) (m : Module) →
        fits (image_info_of mode h) (module_reported m) ≡ is_image_of h m }
{}

/// The bytes at what `pe_c_memory_ranges` finds are those from the address on, as pe_stacks takes the images of modules from the
/// memory of a dump.
#[tactic(auto, using(crate::proofs::DumpStacks::range_bytes))]
pub fn memory_ranges_are_bytes()
    ensures { (memory : List ℕ) (pieces : List MemoryPiece) (r : Range) →
        range memory (range_in pieces r).offset (range_in pieces r).length ≡ bytes_at memory pieces r.offset r.length }
{}

/// What `pe_c_next_frame` returns over the runs of pieces that lie in the memory, as `pe_c_memory_runs` writes them, it returns over
/// these pieces too: the walk over the memory of a dump in order is that over the memory as the dump lists it (`x64`). The walks may
/// differ by the mark `is_searched` before the call and after it, since runs ascend: that over the pieces has none, unless these
/// ascend. So call after call the two stay equal but for the mark. So does `pe_c_next_arm64_frame` (`arm64`).
pub fn walks_over_runs_are_over_pieces()
    ensures x64 { (views : List ModuleView) (memory : List ℕ) (pieces runs : List MemoryPiece) (number : ℕ) (old older new : StackWalk) →
        AreRuns pieces runs → are_inside memory pieces ≡ true → marked older ≡ marked old →
        (older.is_searched ≡ 0) ⊎ (ascend pieces ≡ true) →
        HandsOutFrame Calls stack_walks views memory runs number old new →
        (newer : StackWalk) × HandsOutFrame Calls stack_walks views memory pieces number older newer
        × (marked newer ≡ marked new) }
    ensures arm64 { (views : List ModuleView) (memory : List ℕ) (pieces runs : List MemoryPiece) (number : ℕ) (old older new : Arm64StackWalk) →
        AreRuns pieces runs → are_inside memory pieces ≡ true →
        arm64_walks.marked older ≡ arm64_walks.marked old →
        (older.is_searched ≡ 0) ⊎ (ascend pieces ≡ true) →
        HandsOutFrame arm64.Calls arm64_stack_walks views memory runs number old new →
        (newer : Arm64StackWalk) × HandsOutFrame arm64.Calls arm64_stack_walks views memory pieces number older newer
        × (arm64_walks.marked newer ≡ arm64_walks.marked new) }
{}

/// Which functions are inlined at an RVA, and where, is read of the stream of their module, the one that the call takes. Whatever the stream
/// of ids is, or the starts of its records, they have the same lines; whatever the lines of the module are, the same names. That other
/// modules change no frame of an RVA is the law of this name in pe_pdb.
pub fn frames_of_module_alone()
    ensures lines { (b : List ℕ) (m : PdbModule) (s : PdbSymbol) (rva : ℕ) (ids starts other_ids other_starts : List ℕ) →
        all_placed (inlined_functions b m s rva ids starts) ≡ all_placed (inlined_functions b m s rva other_ids other_starts) }
    ensures names { (b : List ℕ) (m : PdbModule) (s : PdbSymbol) (rva : ℕ) (ids starts : List ℕ) (lines : Range) →
        all_named (inlined_functions b m s rva ids starts) ≡ all_named (inlined_functions b (with_lines m lines) s rva ids starts) }
{}

/// Where `pe_c_pdb_stream_range` returns a range of the file, its bytes are those that `pe_c_pdb_stream` copies.
pub fn stream_range_is_stream()
    ensures { (b starts : List ℕ) (index : ℕ) (r : Range) →
        stream_range b starts index ≡ Ok (Some r) → stream_numbered b starts index ≡ Ok (range b r.offset r.length) }
{}

/// By an index that `pe_c_pdb_index` or `pe_c_pdb_lines` made a lookup returns what the call without one returns: what a call without one
/// returns is one answer, so both are the same.
pub fn reading_is_lookup()
    ensures symbols { (class : SymbolClass) (b : List ℕ) (r : Range) (sections xs index : List ℕ) (rva number : ℕ) (old new : PdbSymbol) →
        indexed class b r sections ≡ Ok xs → IsPermutation xs index → IsNonDecreasing index →
        FindsSymbol class b sections index rva number old new → ReadsSymbol class b (indexed class b r sections) sections rva number old new }
    ensures lines { (b : List ℕ) (r : Range) (sections : List ℕ) (xs : List CodeLine) (index : List LineEntry) (rva number : ℕ) (old new : CodeLine) →
        indexed_lines b r sections ≡ Ok xs → AreEntries xs index → IsNonDecreasingBy line_key index →
        FindsLine index rva number old new → ReadsLine (indexed_lines b r sections) rva number old new }
{}
