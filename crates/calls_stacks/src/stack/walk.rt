//! Walks of a stack on x64, a frame a call: the walk of pe_frame, through the modules of a process, from the innermost frame
//! outwards. The caller keeps the walk between two calls, and holds the modules and the memory.
//! https://learn.microsoft.com/cpp/build/exception-handling-x64

ghost use Rattle.std.specs.Prelude.{◌≡◌, ◌≤◌, ◌<◌, ◌+◌, length, Some, IfSome, IsTrue, OnErr};
ghost use Rattle.std.specs.List.{find, list_all};
ghost use Rattle.std.specs.Option.{option_map};
ghost use Rattle.pe_core.specs.Refusals.{answer_by};
ghost use Rattle.pe_lookup.specs.AddressRanges.{AreAscending, has_address};
ghost use Rattle.pe_frame.specs.Arm64Walks as arm64;
ghost use Rattle.pe_frame.specs.FrameWalks.{frame_left};
ghost use Rattle.pe_frame.specs.Modules.{is_after_call_arm64_of, is_after_call_of, is_code_return_arm64_of, is_code_of, is_code_return_of, is_unknown, module_at, module_base, module_size, call_target_of};
ghost use Rattle.pe_frame.specs.Walks.{CallsIn, lookup_address};
ghost use Rattle.calls_stacks.specs.StackWalks.{after_frame, stack_walks};
ghost use Rattle.calls_stacks.specs.WalkModules.{exceptions_of, has_table, module_of, module_with, modules_of, view_base, view_size, viewed};

use crate::stack::calls::{WalkRecord, error_of_end, number_of_end, number_of_way, way_of};
use crate::stack::frames::{FrameRegisters, RSP, put_registers, registers_of};
use calls_base::ranges::Range;
use calls_base::results::options;
use calls_base::view::View;
use pe_core::{ByteRange, Error, Result};
use pe_frame::{
    Arm64StackFrame, CallSites, LoadedModules, Memory, Module, StackFrame, WalkEnd, WalkPosition,
    caller_in_module, caller_in_module_arm64, caller_outside, caller_outside_arm64,
};
use pe_lookup::{AddressRange, first_overlap, first_with, range_near};
use pe_unwind::ExceptionData;
use std::cell::Cell;

/// A module of a process on x64: an image, and the addresses where it is loaded. One whose image is not at hand has no bytes and no
/// sections, and the size of its image.
#[repr(C)]
#[derive(Clone, Copy)]
pub struct ModuleView<'a> {
    /// The image, which has `size_of_image` bytes where it is loaded.
    pub image: View<'a>,
    /// The range of its function table, as `pe_c_function_table` returns it. One of no bytes: no records describe its functions.
    pub table: Range,
    /// The address where it is loaded.
    pub base: u64,
}

/// A walk of a stack, and the frame that was returned last.
#[repr(C)]
#[derive(Clone, Copy)]
pub struct StackWalk {
    /// The registers in the frame; before the first call those of the thread.
    pub registers: FrameRegisters,
    /// How many frames follow at most. 0 once the walk is over.
    pub remaining: u64,
    /// Of a walk that is over the address that its error speaks of, or 0.
    pub address: u64,
    /// 0 before the first call, else 1.
    pub has_returned: u32,
    /// How the frame was found: 0 the top frame, 1 records, 2 leaf, 3 interrupt, 4 scanned, 5 frame pointer.
    pub way: u32,
    /// 1 where the function of the frame has called: `rip` is the return address. Else 0.
    pub has_called: u32,
    /// Why the walk is over: 0 bound, 1 bottom, 2 no module, 3 no function, 4 records, 5 long chain, 6 step, 7 zero, 8 no return
    /// address.
    pub end: u32,
    /// Of a walk that is over the number of the error, for records, a long chain and a step, else 0.
    pub error: u32,
    /// 1 where an earlier call of this walk found that the pieces of memory lie in `memory`, ascend and do not overlap: later calls
    /// search them, and test only those that they read. 0 before the first call.
    pub is_searched: u32,
    /// 1 where the frame may be wrong: it was guessed, or one before it was. Else 0.
    pub is_guess: u32,
    /// 0.
    pub spare: u32,
}

/// Whether the function table of a module lies in its bytes.
fn has_table(view: &ModuleView<'_>) -> bool
    ensures { result ≡ has_table view.now }
{
    let (length, table) = (view.image.bytes.len() as u64, &view.table);
    table.length <= length && table.offset <= length - table.length
}

/// The exception data of a module.
fn exceptions_of<'a>(view: &ModuleView<'a>) -> Option<ExceptionData<'a>>
    requires { IsTrue (has_table view.now) }
    ensures { result ≡ exceptions_of view.now }
{
    if view.table.length == 0 {
        return None;
    }
    let table = ByteRange {
        offset: view.table.offset as usize,
        length: view.table.length as usize,
    };
    match ExceptionData::of_table(view.image.bytes, table, view.image.image.file_alignment) {
        Ok(exceptions) => Some(exceptions),
        Err(_) => None,
    }
}

/// A module as pe_frame takes it, with its exception data.
fn module_with<'a>(view: &ModuleView<'a>, exceptions: Option<&'a ExceptionData<'a>>) -> Module<'a>
    ensures { result ≡ module_with view.now exceptions.entry }
{
    let View {
        bytes,
        image,
        sections,
        index,
    } = view.image;
    Module {
        base: view.base,
        size: image.size_of_image,
        bytes,
        sections,
        index,
        exceptions,
        opts: options(image.mode),
    }
}

/// Whether an address, which may be the end of a module, is one after a call in it by the distance of its target. Nearly all calls
/// are such, and for one nothing is made of the module but what is read.
#[inline(always)]
fn ends_near_call_in(view: &ModuleView<'_>, address: u64) -> bool
    requires table { IsTrue (has_table view.now) }
    requires near { address ≤ view.now.base + view.now.image.image.now.size_of_image }
    ensures { IsTrue result → IsTrue (is_after_call_of (Some (module_of view.now)) address) }
{
    let exceptions = exceptions_of(view);
    module_with(view, exceptions.as_ref()).is_after_near_call(address)
}

/// Whether an address, which may be the end of a module, is one after a call in it.
#[inline(never)]
fn ends_call_in(view: &ModuleView<'_>, address: u64) -> bool
    requires table { IsTrue (has_table view.now) }
    requires near { address ≤ view.now.base + view.now.image.image.now.size_of_image }
    ensures { result ≡ is_after_call_of (Some (module_of view.now)) address }
{
    let exceptions = exceptions_of(view);
    module_with(view, exceptions.as_ref()).is_after_call(address)
}

/// Whether an address of a module is one of an executable section.
fn is_code_in(view: &ModuleView<'_>, address: u64) -> bool
    requires { address ≤ view.now.base + view.now.image.image.now.size_of_image }
    ensures { result ≡ is_code_of (Some (module_of view.now)) address }
{
    module_with(view, None).is_code(address)
}

/// Whether the image of a module is not at hand.
fn is_unknown(view: &ModuleView<'_>) -> bool
    ensures { result ≡ is_unknown (module_of view.now) }
{
    module_with(view, None).is_unknown()
}

/// Whether an address, which may be the end of a module, is one after a call in an executable section of it.
fn ends_code_call_in(view: &ModuleView<'_>, address: u64) -> bool
    requires table { IsTrue (has_table view.now) }
    requires near { address ≤ view.now.base + view.now.image.image.now.size_of_image }
    ensures { result ≡ is_code_return_of (Some (module_of view.now)) address }
{
    let exceptions = exceptions_of(view);
    module_with(view, exceptions.as_ref()).is_code_return(address)
}

/// Where the call of a module leads that ends at an address, which may be the end of the module.
fn target_of_call_in(view: &ModuleView<'_>, address: u64) -> Option<u64>
    requires table { IsTrue (has_table view.now) }
    requires near { address ≤ view.now.base + view.now.image.image.now.size_of_image }
    ensures { result ≡ call_target_of (Some (module_of view.now)) address }
{
    let exceptions = exceptions_of(view);
    module_with(view, exceptions.as_ref()).call_target(address)
}

/// Whether an address, which may be the end of a module, is one after a call on ARM64 in it.
fn ends_call_arm64_in(view: &ModuleView<'_>, address: u64) -> bool
    requires table { IsTrue (has_table view.now) }
    requires near { address ≤ view.now.base + view.now.image.image.now.size_of_image }
    ensures { result ≡ is_after_call_arm64_of (Some (module_of view.now)) address }
{
    let exceptions = exceptions_of(view);
    module_with(view, exceptions.as_ref()).is_after_call_arm64(address)
}

/// The same in an executable section.
fn ends_code_call_arm64_in(view: &ModuleView<'_>, address: u64) -> bool
    requires table { IsTrue (has_table view.now) }
    requires near { address ≤ view.now.base + view.now.image.image.now.size_of_image }
    ensures { result ≡ is_code_return_arm64_of (Some (module_of view.now)) address }
{
    let exceptions = exceptions_of(view);
    module_with(view, exceptions.as_ref()).is_code_return_arm64(address)
}

impl<'a> AddressRange for ModuleView<'a> {
    ghost start_of = { view_base };

    ghost size_of = { view_size };

    fn start(&self) -> u64 {
        self.base
    }

    fn size(&self) -> u64 {
        u64::from(self.image.image.size_of_image)
    }
}

/// Whether the function table of each module lies in its bytes, and the modules are in ascending order and do not overlap: so
/// nearly all are, which are tested in one pass. Out of line, as `have_tables`.
#[inline(never)]
fn are_in_order(views: &[ModuleView<'_>]) -> bool
    ensures tables { IsTrue result → IsTrue (list_all has_table views.now) }
    ensures ascending { IsTrue result → AreAscending view_base view_size views.now }
{
    // Of the module before.
    let mut start = 0;
    let mut size = 0;
    for i in 0..views.len() {
        let view = &views[i];
        let next = view.base;
        if !has_table(view) || next < start || next - start < size {
            return false;
        }
        start = next;
        size = view.size();
    }
    true
}

/// Whether the function table of each module lies in its bytes. Out of line: in line, a walk's call makes the error of each module
/// before it tests it.
#[inline(never)]
fn have_tables(views: &[ModuleView<'_>]) -> bool
    ensures { result ≡ list_all has_table views.now }
{
    views.iter().all(|view| has_table(view))
}

/// The modules that a caller passes.
#[derive(Drop)]
pub struct ViewedModules<'a> {
    views: &'a [ModuleView<'a>],
    /// Whether they are in ascending order and do not overlap.
    is_ascending: bool,
    /// Then the index of the one that was found last: that of a return address is looked up for the call before it, and again
    /// for its frame.
    near: Cell<usize>,
    ghost ascending: { IsTrue is_ascending → AreAscending view_base view_size views.now },
    ghost tables: { IsTrue (list_all has_table views.now) },
}

impl<'a> ViewedModules<'a> {
    /// These modules. Error: `Short` if a function table does not lie in the bytes of its module.
    pub fn new(views: &'a [ModuleView<'a>]) -> Result<ViewedModules<'a>>
        ensures { answer_by (λ m. m.views.now) result ≡ viewed views.entry.now }
    {
        let is_in_order = are_in_order(views);
        if !is_in_order && !have_tables(views) {
            // Callers get the error's number alone.
            return Err(Error::Short { at: 0, needed: 0 });
        }
        let is_ascending = is_in_order || first_overlap(views).is_none();
        Ok(ViewedModules {
            views,
            is_ascending,
            near: Cell::new(0),
        })
    }

    /// The first view that has an address.
    fn view_with(&self, address: u64) -> Option<&'a ModuleView<'a>>
        ensures { option_map (λ v. v.now) result
            ≡ find (has_address view_base view_size address) self.now.views.now }
    {
        if self.is_ascending {
            range_near(self.views, &self.near, address)
        } else {
            first_with(self.views, false, address)
        }
    }

    /// The first module that has an address.
    #[tactic(auto, using(crate::proofs::ViewedModules::found, crate::proofs::ViewedModules::tabled))]
    fn find(&self, address: u64) -> Option<&'a ModuleView<'a>>
        ensures found { option_map (λ v. module_of v.now) result
            ≡ module_at (modules_of self.now.views.now) address }
        ensures table { IfSome result (λ v. IsTrue (has_table v.now)) }
        ensures has { IfSome result (λ v. IsTrue (has_address module_base module_size address (module_of v.now))) }
        ensures inside { IfSome result (λ v. address < v.now.base + v.now.image.image.now.size_of_image) }
    {
        self.view_with(address)
    }

    /// Makes a frame that of its caller, by the module that has its lookup address, or says why there is none: then it stays.
    fn become_caller_in<M: Memory>(
        &self,
        view: &ModuleView<'_>,
        frame: &mut StackFrame,
        memory: &M,
    ) -> std::result::Result<(), WalkEnd>
        requires table { IsTrue (has_table view.now) }
        requires has { IsTrue (has_address module_base module_size
            (lookup_address frame.old) (module_of view.now)) }
        ensures caller { CallsIn (M.word memory.now) (modules_of self.now.views.now) frame.old
            (Some (module_of view.now)) (frame_left result frame.new) }
        ensures kept { OnErr result (frame.new ≡ frame.old) }
    {
        let exceptions = exceptions_of(view);
        let module = module_with(view, exceptions.as_ref());
        caller_in_module(self, &module, frame, memory)
    }

    /// The frame of the caller of a frame on ARM64, or why there is none.
    fn caller_in_arm64<M: Memory>(
        &self,
        view: &ModuleView<'_>,
        frame: &Arm64StackFrame,
        memory: &M,
    ) -> std::result::Result<Arm64StackFrame, WalkEnd>
        requires table { IsTrue (has_table view.now) }
        requires has { IsTrue (has_address module_base module_size
            (arm64.lookup_address frame.now) (module_of view.now)) }
        ensures { arm64.CallsIn
            (record { memory = M.word memory.now; modules = modules_of self.now.views.now })
            frame.now (Some (module_of view.now)) result }
    {
        let exceptions = exceptions_of(view);
        let module = module_with(view, exceptions.as_ref());
        caller_in_module_arm64(self, &module, frame, memory)
    }
}

impl<'a> CallSites for ViewedModules<'a> {
    ghost list = { λ m. modules_of m.views.now };

    fn ends_call(&self, address: u64) -> bool {
        match self.find(address.saturating_sub(1)) {
            Some(view) => ends_near_call_in(view, address) || ends_call_in(view, address),
            None => false,
        }
    }

    fn ends_code_call(&self, address: u64) -> bool {
        match self.find(address.saturating_sub(1)) {
            Some(view) => ends_code_call_in(view, address),
            None => false,
        }
    }

    fn target_of_call(&self, address: u64) -> Option<u64> {
        match self.find(address.saturating_sub(1)) {
            Some(view) => target_of_call_in(view, address),
            None => None,
        }
    }

    fn is_code(&self, address: u64) -> bool {
        match self.find(address) {
            Some(view) => is_code_in(view, address),
            None => false,
        }
    }

    fn is_in_unknown(&self, address: u64) -> bool {
        match self.find(address) {
            Some(view) => is_unknown(view),
            None => false,
        }
    }

    fn ends_call_arm64(&self, address: u64) -> bool {
        match self.find(address.saturating_sub(1)) {
            Some(view) => ends_call_arm64_in(view, address),
            None => false,
        }
    }

    fn ends_code_call_arm64(&self, address: u64) -> bool {
        match self.find(address.saturating_sub(1)) {
            Some(view) => ends_code_call_arm64_in(view, address),
            None => false,
        }
    }
}

impl<'a> LoadedModules for ViewedModules<'a> {
    ghost modules = { λ m. modules_of m.views.now };

    fn become_caller<M: Memory>(
        &self,
        frame: &mut StackFrame,
        memory: &M,
    ) -> std::result::Result<(), WalkEnd> {
        match self.find(frame.lookup_address()) {
            Some(view) => self.become_caller_in(view, frame, memory),
            None => caller_outside(self, frame, memory),
        }
    }

    fn caller_of_arm64<M: Memory>(
        &self,
        frame: &Arm64StackFrame,
        memory: &M,
    ) -> std::result::Result<Arm64StackFrame, WalkEnd> {
        match self.find(frame.lookup_address()) {
            Some(view) => self.caller_in_arm64(view, frame, memory),
            None => caller_outside_arm64(self, frame, memory),
        }
    }
}

/// Writes a frame to a walk. Inlined, as walks are compiled for tested and for searched memory, and each writes every frame.
#[inline(always)]
fn write_frame(frame: &StackFrame, walk: &mut StackWalk)
    requires { 0 < walk.old.remaining }
    ensures after { walk.new ≡ after_frame walk.old frame.now }
    ensures xmm { length frame.now.registers.xmm ≡ 16 }
{
    put_registers(&frame.registers, &mut walk.registers);
    walk.remaining -= 1;
    walk.has_returned = 1;
    walk.way = number_of_way(frame.way);
    walk.has_called = u32::from(frame.has_called);
    walk.is_guess = u32::from(frame.is_guess);
}

impl WalkRecord for StackWalk {
    type Frame = StackFrame;

    ghost records = { stack_walks };

    fn position(&self) -> WalkPosition<StackFrame> {
        WalkPosition {
            frame: StackFrame {
                registers: registers_of(&self.registers),
                way: way_of(self.way),
                has_called: self.has_called != 0,
                is_guess: self.is_guess != 0,
            },
            has_returned: self.has_returned != 0,
            remaining: self.remaining as usize,
            end: WalkEnd::Bound,
        }
    }

    #[inline(always)]
    fn put_frame(&mut self, frame: &StackFrame) {
        write_frame(frame, self);
    }

    fn put_end(&mut self, end: &WalkEnd) {
        let (error, address) = error_of_end(end);
        self.remaining = 0;
        self.end = number_of_end(end);
        self.error = error;
        self.address = address.unwrap_or(0);
    }

    fn stack_pointer(&self) -> u64 {
        self.registers.general[RSP]
    }

    fn is_searched(&self) -> bool {
        self.is_searched != 0
    }

    fn mark(&mut self) {
        self.is_searched = 1;
    }
}
