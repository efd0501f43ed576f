//! What the definitions that contracts cite say together.

ghost use Rattle.std.specs.Prelude.{◌≡◌, ◌+◌, ◌-◌, ◌/◌, ◌<◌, ◌≤◌, ◌^◌, ℕ, Err, List, None, Ok, Some, false, length, slice_index, true};
ghost use Rattle.pe_core.specs.declared.options.ParseOptions.{ParseOptions};
ghost use Rattle.pe_frame.specs.Arm64Walks as arm64;
ghost use Rattle.pe_frame.specs.FrameWalks.{IsWalk, starting_walk};
ghost use Rattle.pe_frame.specs.MemoryLists.{are_inside, listed_byte, listed_word};
ghost use Rattle.pe_frame.specs.Walks.{Calls};
ghost use Rattle.pe_frame.specs.declared.arm64.walk.Arm64StackFrame.{Arm64StackFrame};
ghost use Rattle.pe_frame.specs.declared.memory_list.MemoryPiece.{MemoryPiece};
ghost use Rattle.pe_frame.specs.declared.modules.Module as modules;
ghost use Rattle.pe_frame.specs.declared.walk.StackFrame.{StackFrame};
ghost use Rattle.pe_frame.specs.declared.walk.WalkEnd.{WalkEnd};
ghost use Rattle.pe_minidump.specs.Contexts.{context_arm64, context_x64};
ghost use Rattle.pe_minidump.specs.Dumps.{DumpView, read_stream};
ghost use Rattle.pe_minidump.specs.Memory64.{Listed64, memory64_of};
ghost use Rattle.pe_minidump.specs.Refusals.{DumpRefusal};
ghost use Rattle.pe_minidump.specs.Streams.{memory_list};
ghost use Rattle.pe_minidump.specs.declared.context_arm64.ContextArm64.{ContextArm64};
ghost use Rattle.pe_minidump.specs.declared.context_x64.ContextX64.{ContextX64};
ghost use Rattle.pe_minidump.specs.declared.location.Location.{Location};
ghost use Rattle.pe_minidump.specs.declared.module.Module.{Module};
ghost use Rattle.pe_minidump.specs.declared.thread.Thread.{Thread};
ghost use Rattle.pe_stacks.specs.DumpMemory.{IsFirst64, has64, listed_all, offset64, pieces_of, start64};
ghost use Rattle.pe_stacks.specs.Images.{Fits, ModuleImageView, image_of};
ghost use Rattle.pe_stacks.specs.MemoryRuns.{AreRuns, bytes_at};
ghost use Rattle.pe_stacks.specs.Names.{Names};
ghost use Rattle.pe_stacks.specs.ThreadContexts.{context_at, raised_at, thread_context};
ghost use Rattle.pe_stacks.specs.declared.names.FunctionStart.{FunctionStart};
ghost use Rattle.pe_stacks.specs.declared.names.FunctionStart.TheVariants.{NoTable, Starts};
ghost use Rattle.pe_stacks.specs.declared.names.NamedFunction.{NamedFunction};

/// An image is taken only if its time stamp and its size are those of the module.
#[tactic(auto, using(crate::proofs::Headline::fits))]
pub fn images_match()
    ensures { (b : List ℕ) (opts : ParseOptions) (m : Module) (i : ModuleImageView) →
        image_of b opts m ≡ Ok (Some i) → Fits b opts m }
{}

/// The bytes of a dump's memory from an address on, of which the image of a module is made, are each that of the first piece of the
/// dump that has its address: what the dump has no byte of is never read as zeros.
#[tactic(auto, using(crate::proofs::RunBytes::byte_of_memory))]
pub fn loaded_bytes_are_memory()
    ensures { (file : List ℕ) (pieces runs : List MemoryPiece) (x n k : ℕ) →
        AreRuns pieces runs → are_inside file pieces ≡ true → x + k < 2 ^ 64 → k < length (bytes_at file runs x n) →
        listed_byte file pieces (x + k) ≡ Some (slice_index (bytes_at file runs x n) k) }
{}

/// The memory of a full dump is that of its list, where the dump has no other list: then the walks of its threads are over these
/// pieces alone.
#[tactic(auto, using(crate::proofs::FullMemory::only_list))]
pub fn full_memory_is_its_list()
    ensures { (d : DumpView) (l : Listed64) → memory_list d ≡ Ok None → read_stream memory64_of d 9 ≡ Ok (Some l) →
        pieces_of d ≡ listed_all d.bytes l }
{}

/// The byte of such a list at an address is that of the first piece for which the file has one there. It stands in the file after the
/// bytes of all pieces before it. Where the file has one for no piece there is none.
#[tactic(auto, using(crate::proofs::FullMemory::sums_found, crate::proofs::FullMemory::sums_none))]
pub fn full_memory_is_sums()
    ensures found { (file : List ℕ) (l : Listed64) (x i : ℕ) → IsFirst64 file l x i →
        listed_byte file (listed_all file l) x ≡ Some (slice_index file (offset64 l i + (x - start64 l i))) }
    ensures none { (file : List ℕ) (l : Listed64) (x : ℕ) → ((i : ℕ) → i < length l.ranges / 16 → has64 file l x i ≡ false) →
        listed_byte file (listed_all file l) x ≡ None }
{}

/// The memory of runs is that of the pieces that they are made of, so that a walk over runs is the walk over these pieces: those of
/// any dump, and by `full_memory_is_its_list` those of a full dump.
pub fn stacks_over_runs_are_walks()
    ensures memory { (file : List ℕ) (pieces runs : List MemoryPiece) → AreRuns pieces runs →
        listed_word file runs ≡ listed_word file pieces }
    ensures x64 { (file : List ℕ) (pieces runs : List MemoryPiece) (ms : List modules.Module)
        (top : StackFrame) (most : ℕ) (frames : List StackFrame) (end : WalkEnd) → AreRuns pieces runs →
        IsWalk Calls (starting_walk (record { memory = listed_word file runs; modules = ms }) top most) frames end →
        IsWalk Calls (starting_walk (record { memory = listed_word file pieces; modules = ms }) top most) frames end }
    ensures arm64 { (file : List ℕ) (pieces runs : List MemoryPiece) (ms : List modules.Module)
        (top : Arm64StackFrame) (most : ℕ) (frames : List Arm64StackFrame) (end : WalkEnd) → AreRuns pieces runs →
        IsWalk arm64.Calls (starting_walk (record { memory = listed_word file runs; modules = ms }) top most) frames end →
        IsWalk arm64.Calls (starting_walk (record { memory = listed_word file pieces; modules = ms }) top most) frames end }
{}

/// The registers of a thread are those of the exception, where it names the thread and they can be read (`raised`); and its own where
/// they cannot be read (`unread`), or where it does not name the thread (`own`).
pub fn exceptions_come_first()
    ensures raised { (d : DumpView) (t : Thread) (l : Location) (c : ContextX64) →
        raised_at d t ≡ Some l → context_at context_x64 d l ≡ Ok c → thread_context context_x64 d t ≡ Ok c }
    ensures unread { (d : DumpView) (t : Thread) (l : Location) (r : DumpRefusal) →
        raised_at d t ≡ Some l → context_at context_x64 d l ≡ Err r →
        thread_context context_x64 d t ≡ context_at context_x64 d t.thread_context }
    ensures own { (d : DumpView) (t : Thread) →
        raised_at d t ≡ None → thread_context context_x64 d t ≡ context_at context_x64 d t.thread_context }
    ensures raised_arm64 { (d : DumpView) (t : Thread) (l : Location) (c : ContextArm64) →
        raised_at d t ≡ Some l → context_at context_arm64 d l ≡ Ok c → thread_context context_arm64 d t ≡ Ok c }
    ensures unread_arm64 { (d : DumpView) (t : Thread) (l : Location) (r : DumpRefusal) →
        raised_at d t ≡ Some l → context_at context_arm64 d l ≡ Err r →
        thread_context context_arm64 d t ≡ context_at context_arm64 d t.thread_context }
    ensures own_arm64 { (d : DumpView) (t : Thread) →
        raised_at d t ≡ None → thread_context context_arm64 d t ≡ context_at context_arm64 d t.thread_context }
{}

/// Where the function table has a function at an RVA, what names the RVA starts in that function, at or before the RVA, and an export
/// starts with the function. A name that is only the nearest one is of an image without a function table.
#[tactic(auto, using(crate::proofs::NearestNames::inside, crate::proofs::NearestNames::only_nearest))]
pub fn names_stay_in_their_function()
    ensures inside { (symbols exports : List ℕ) (start rva : ℕ) (n : NamedFunction) → start ≤ rva →
        Names symbols exports (Starts start) rva (Some n) →
        (start ≤ n.start) × (n.start ≤ rva) × (n.is_export ≡ true → n.start ≡ start) }
    ensures nearest { (symbols exports : List ℕ) (function : FunctionStart) (rva : ℕ) (n : NamedFunction) →
        Names symbols exports function rva (Some n) → n.is_nearest ≡ true → function ≡ NoTable }
{}
