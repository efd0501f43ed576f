//! The laws of whole stack walks, a frame a call.

ghost use Rattle.std.specs.Prelude.{◌≡◌, ◌↔◌, ℕ, List, [], ◌∷◌, Ok, Some, true};
ghost use Rattle.std.specs.List.{list_all};
ghost use Rattle.pe_core.specs.SectionMap.{map_view, offset_in};
ghost use Rattle.pe_frame.specs.Arm64Walks as arm64;
ghost use Rattle.pe_frame.specs.FrameWalks.{IsWalk, Process};
ghost use Rattle.pe_frame.specs.MemoryLists.{are_inside, ascend, listed_word};
ghost use Rattle.pe_frame.specs.Modules.{map_of_module};
ghost use Rattle.pe_frame.specs.Walks.{Calls};
ghost use Rattle.pe_frame.specs.declared.arm64.walk.Arm64StackFrame.{Arm64StackFrame};
ghost use Rattle.pe_frame.specs.declared.memory_list.MemoryPiece.{MemoryPiece};
ghost use Rattle.pe_frame.specs.declared.walk.StackFrame.{StackFrame};
ghost use Rattle.pe_frame.specs.declared.walk.WalkEnd.{WalkEnd};
ghost use Rattle.pe_unwind.specs.ExceptionTable.{ExceptionView};
ghost use Rattle.calls_stacks.specs.Arm64StackWalks.{arm64_stack_walks};
ghost use Rattle.calls_stacks.specs.Arm64StackWalks as arm64_walks;
ghost use Rattle.calls_stacks.specs.FrameCalls.{CallsReturn, HandsOutFrame, HandsOutFrames, HasEnd, IsOpen, ReturnsFrames, state_in};
ghost use Rattle.calls_base.specs.Images.{map_of_image};
ghost use Rattle.calls_base.specs.Modes.{options_of};
ghost use Rattle.calls_stacks.specs.StackFrames.{exceptions_by};
ghost use Rattle.calls_stacks.specs.StackWalks.{marked, stack_walks};
ghost use Rattle.calls_base.specs.Views.{map_of};
ghost use Rattle.calls_stacks.specs.WalkModules.{exceptions_of, has_table, module_of, modules_of};
ghost use Rattle.calls_stacks.specs.declared.arm64.stack_walk.Arm64StackWalk.{Arm64StackWalk};
ghost use Rattle.calls_base.specs.declared.ranges.Range.{Range};
ghost use Rattle.calls_stacks.specs.declared.stack.walk.ModuleView.{ModuleView};
ghost use Rattle.calls_stacks.specs.declared.stack.walk.StackWalk.{StackWalk};
ghost use Rattle.calls_base.specs.declared.view.View.{View};
ghost use Rattle.pe_core.specs.declared.section_table.SectionTable.{SectionTable};
ghost use Rattle.pe_unwind.specs.Arm64Lookup.{length_by, length_of_arm64};
ghost use Rattle.pe_unwind.specs.Arm64Unwinding.{info_by, info_of_function};
ghost use Rattle.pe_unwind.specs.declared.arm64.function.Arm64RuntimeFunction.{Arm64RuntimeFunction};
ghost use Rattle.calls_unwind.specs.Arm64.{arm64_record_in, arm64_record_of};
ghost use Rattle.calls_base.specs.declared.image.Image.{Image};

/// The sections of a view map RVAs as the section map of its exception data does (`steps`), and a walk maps those of a module as its
/// view does (`walks`). So by a view without an index, or with one that `pe_c_index` made (`laws::indexes`), steps and walks read
/// the records that pe_unwind reads.
#[tactic(auto, using(calls_stacks::proofs::StepMaps::maps_of_steps, calls_stacks::proofs::StepMaps::maps_of_walks))]
pub fn steps_map_as_walks()
    ensures steps { (v : View) (table : Range) (e : ExceptionView) → exceptions_by v table ≡ Ok e →
        map_of_image v.image.now v.sections.now
        ≡ offset_in (map_view (options_of v.image.now.mode) v.sections.now e.alignment) }
    ensures walks { (v : ModuleView) (e : ExceptionView) → exceptions_of v ≡ Some e →
        map_of_module (module_of v) e ≡ map_of v.image }
{}

/// `pe_c_next_frames` with room for one frame returns the next frame of a walk, which `pe_c_next_frame` of `pe.h` makes of it: what
/// the laws below say of that (`x64`). So does `pe_c_next_arm64_frames`, of which `pe_c_next_arm64_frame` is made (`arm64`).
pub fn one_of_frames_is_the_next()
    ensures x64 { (views : List ModuleView) (memory : List ℕ) (pieces : List MemoryPiece)
        (number count : ℕ) (slot : StackWalk) (filled : List StackWalk × ℕ) (w new : StackWalk) →
        HandsOutFrames Calls stack_walks views memory pieces number (slot ∷ [], count) filled w new →
        HandsOutFrame Calls stack_walks views memory pieces number w new }
    ensures arm64 { (views : List ModuleView) (memory : List ℕ) (pieces : List MemoryPiece)
        (number count : ℕ) (slot : Arm64StackWalk) (filled : List Arm64StackWalk × ℕ) (w new : Arm64StackWalk) →
        HandsOutFrames arm64.Calls arm64_stack_walks views memory pieces number (slot ∷ [], count) filled w new →
        HandsOutFrame arm64.Calls arm64_stack_walks views memory pieces number w new }
{}

/// Calls of `pe_c_next_frame` return, in turn, exactly the frames of a walk as pe_frame defines it, over the memory and the
/// modules that are passed, at most as many as were asked for; the walk is then over for the reason for which that walk is,
/// whose numbers it has (`x64`). So do calls of `pe_c_next_arm64_frame` (`arm64`).
#[tactic(auto, using(calls_stacks::proofs::FrameRuns::whole, calls_stacks::proofs::WalkFrames::keep_walks, calls_stacks::proofs::Arm64WalkFrames::keep_walks))]
pub fn walks_give_the_frames()
    ensures x64 { (p : Process) (w last : StackWalk) (frames : List StackFrame) →
        IsOpen stack_walks w → ReturnsFrames Calls stack_walks p w frames last →
        (end : WalkEnd) × IsWalk Calls (state_in stack_walks p w) frames end
        × HasEnd stack_walks last end }
    ensures arm64 { (p : Process) (w last : Arm64StackWalk) (frames : List Arm64StackFrame) →
        IsOpen arm64_stack_walks w →
        ReturnsFrames arm64.Calls arm64_stack_walks p w frames last →
        (end : WalkEnd) × IsWalk arm64.Calls (state_in arm64_stack_walks p w) frames end
        × HasEnd arm64_stack_walks last end }
{}

/// What `pe_c_next_frame` returns for a walk with the mark `is_searched`, it returns for the same walk without it, and the other way
/// round: where the pieces of memory lie in it, are in ascending order and do not overlap, and the function table of each module lies
/// in its bytes (`x64`). So do `pe_c_next_frames` (`x64_frames`) and the calls of ARM64 (`arm64`, `arm64_frames`).
pub fn marks_change_nothing()
    ensures x64 { (views : List ModuleView) (memory : List ℕ) (pieces : List MemoryPiece) (number : ℕ) (w new : StackWalk) →
        list_all has_table views ≡ true → are_inside memory pieces ≡ true →
        ascend pieces ≡ true → w.is_searched ≡ 0 →
        (HandsOutFrame Calls stack_walks views memory pieces number (marked w) new
        ↔ HandsOutFrame Calls stack_walks views memory pieces number w new) }
    ensures x64_frames { (views : List ModuleView) (memory : List ℕ) (pieces : List MemoryPiece)
        (number : ℕ) (slots filled : List StackWalk × ℕ) (w new : StackWalk) →
        list_all has_table views ≡ true → are_inside memory pieces ≡ true →
        ascend pieces ≡ true → w.is_searched ≡ 0 →
        (HandsOutFrames Calls stack_walks views memory pieces number slots filled (marked w) new
        ↔ HandsOutFrames Calls stack_walks views memory pieces number slots filled w new) }
    ensures arm64 { (views : List ModuleView) (memory : List ℕ) (pieces : List MemoryPiece) (number : ℕ) (w new : Arm64StackWalk) →
        list_all has_table views ≡ true → are_inside memory pieces ≡ true →
        ascend pieces ≡ true → w.is_searched ≡ 0 →
        (HandsOutFrame arm64.Calls arm64_stack_walks views memory pieces number (arm64_walks.marked w) new
        ↔ HandsOutFrame arm64.Calls arm64_stack_walks views memory pieces number w new) }
    ensures arm64_frames { (views : List ModuleView) (memory : List ℕ) (pieces : List MemoryPiece)
        (number : ℕ) (slots filled : List Arm64StackWalk × ℕ) (w new : Arm64StackWalk) →
        list_all has_table views ≡ true → are_inside memory pieces ≡ true →
        ascend pieces ≡ true → w.is_searched ≡ 0 →
        (HandsOutFrames arm64.Calls arm64_stack_walks views memory pieces number slots filled (arm64_walks.marked w) new
        ↔ HandsOutFrames arm64.Calls arm64_stack_walks views memory pieces number slots filled w new) }
{}

/// Calls of `pe_c_next_frame` over the same modules and pieces, for a walk without the mark `is_searched`, return, in turn, exactly
/// the frames of a walk over the memory of these pieces, and then nothing: also where the first call sets the mark, and the later
/// ones search the pieces. The function table of each module lies in its bytes, and each piece in the memory (`x64`). So do calls of
/// `pe_c_next_arm64_frame` (`arm64`).
#[tactic(auto, using(calls_stacks::proofs::CallWalks::whole_by_calls, calls_stacks::proofs::MarkedWalks::unmarked, calls_stacks::proofs::WalkFrames::keep_marks, calls_stacks::proofs::WalkFrames::keep_walks, calls_stacks::proofs::Arm64WalkFrames::keep_walks, calls_stacks::proofs::Arm64WalkFrames::keep_marks))]
pub fn calls_give_the_frames()
    ensures x64 { (views : List ModuleView) (memory : List ℕ) (pieces : List MemoryPiece) (w last : StackWalk) (frames : List StackFrame) →
        list_all has_table views ≡ true → are_inside memory pieces ≡ true →
        IsOpen stack_walks w → w.is_searched ≡ 0 →
        CallsReturn Calls stack_walks views memory pieces w frames last →
        (end : WalkEnd) × IsWalk Calls (state_in stack_walks
        (record { memory = listed_word memory pieces; modules = modules_of views }) w) frames end
        × HasEnd stack_walks last end }
    ensures arm64 { (views : List ModuleView) (memory : List ℕ) (pieces : List MemoryPiece) (w last : Arm64StackWalk) (frames : List Arm64StackFrame) →
        list_all has_table views ≡ true → are_inside memory pieces ≡ true →
        IsOpen arm64_stack_walks w → w.is_searched ≡ 0 →
        CallsReturn arm64.Calls arm64_stack_walks views memory pieces w frames last →
        (end : WalkEnd) × IsWalk arm64.Calls (state_in arm64_stack_walks
        (record { memory = listed_word memory pieces; modules = modules_of views }) w) frames end
        × HasEnd arm64_stack_walks last end }
{}

/// By the map of an image's sections the length of an ARM64 function, its record, and the record that a step of a stack walk reads,
/// are those of pe_unwind.
#[tactic(auto, using(calls_unwind::proofs::Arm64Maps::records_of_sections, calls_unwind::proofs::Arm64Maps::infos_of_sections))]
pub fn arm64_records_are_those_of_the_image()
    ensures lengths { (b : List ℕ) (image : Image) (sections : List SectionTable) (f : Arm64RuntimeFunction) →
        length_by (map_of_image image sections) b f
        ≡ length_of_arm64 b (map_view (options_of image.mode) sections image.file_alignment) f }
    ensures records { (b : List ℕ) (image : Image) (sections : List SectionTable) (f : Arm64RuntimeFunction) →
        arm64_record_of (map_of_image image sections) b image f ≡ arm64_record_in b image sections f }
    ensures infos { (v : ExceptionView) (image : Image) (sections : List SectionTable) (f : Arm64RuntimeFunction) →
        v.alignment ≡ image.file_alignment →
        info_by (map_of_image image sections) v.content f ≡ info_of_function v sections (options_of image.mode) f }
{}
