//! The modules of a minidump as walks take them: in the order of the dump, which is no order of addresses, and in which modules may
//! overlap. The first that has an address is that of the address.

ghost use Rattle.std.specs.Prelude.{◌≡◌, ◌+◌, ◌<◌, IfErr, IfOk, IfSome, IsTrue, length};
ghost use Rattle.std.specs.Option.{option_map};
ghost use Rattle.pe_lookup.specs.AddressRanges.{has_address};
ghost use Rattle.pe_frame.specs.Modules.{module_at, module_base, module_size};

use crate::ranges::IndexedRanges;
use pe_frame::{
    Arm64StackFrame, CallSites, LoadedModules, Memory, Module, StackFrame, WalkEnd,
    caller_in_module, caller_in_module_arm64, caller_outside, caller_outside_arm64,
};
use std::alloc::{AllocError, Allocator};

/// The modules of a process, in any order.
#[derive(Drop)]
pub struct IndexedModules<'a, A: Allocator + Drop> {
    modules: IndexedRanges<'a, Module<'a>, A>,
}

impl<'a, A: Allocator + Copy + Drop> IndexedModules<'a, A> {
    /// These modules. Error: memory runs out, which it does not where there are none.
    pub fn new(alloc: A, modules: &'a [Module<'a>]) -> Result<IndexedModules<'a, A>, AllocError>
        ensures made { IfOk result (λ m. m.modules.ranges.now ≡ modules.entry.now) }
        ensures refused { IfErr result (λ e. 0 < length modules.entry.now) }
    {
        Ok(IndexedModules {
            modules: IndexedRanges::new(alloc, modules)?,
        })
    }

    /// The first module that has an address.
    pub fn find(&self, address: u64) -> Option<&'a Module<'a>>
        ensures found { option_map (λ m. m.now) result ≡ module_at self.now.modules.ranges.now address }
        ensures has { IfSome result (λ m. IsTrue (has_address module_base module_size address m.now)) }
        ensures inside { IfSome result (λ m. address < m.now.base + m.now.size) }
    {
        self.modules.find(address)
    }
}

impl<'a, A: Allocator + Copy + Drop> CallSites for IndexedModules<'a, A> {
    ghost list = { λ m. m.modules.ranges.now };

    fn ends_call(&self, address: u64) -> bool {
        match self.find(address.saturating_sub(1)) {
            Some(module) => module.is_after_call(address),
            None => false,
        }
    }

    fn ends_code_call(&self, address: u64) -> bool {
        match self.find(address.saturating_sub(1)) {
            Some(module) => module.is_code_return(address),
            None => false,
        }
    }

    fn target_of_call(&self, address: u64) -> Option<u64> {
        match self.find(address.saturating_sub(1)) {
            Some(module) => module.call_target(address),
            None => None,
        }
    }

    fn is_code(&self, address: u64) -> bool {
        match self.find(address) {
            Some(module) => module.is_code(address),
            None => false,
        }
    }

    fn is_in_unknown(&self, address: u64) -> bool {
        match self.find(address) {
            Some(module) => module.is_unknown(),
            None => false,
        }
    }

    fn ends_call_arm64(&self, address: u64) -> bool {
        match self.find(address.saturating_sub(1)) {
            Some(module) => module.is_after_call_arm64(address),
            None => false,
        }
    }

    fn ends_code_call_arm64(&self, address: u64) -> bool {
        match self.find(address.saturating_sub(1)) {
            Some(module) => module.is_code_return_arm64(address),
            None => false,
        }
    }
}

impl<'a, A: Allocator + Copy + Drop> LoadedModules for IndexedModules<'a, A> {
    ghost modules = { λ m. m.modules.ranges.now };

    fn become_caller<M: Memory>(&self, frame: &mut StackFrame, memory: &M) -> Result<(), WalkEnd> {
        match self.find(frame.lookup_address()) {
            Some(module) => caller_in_module(self, module, frame, memory),
            None => caller_outside(self, frame, memory),
        }
    }

    fn caller_of_arm64<M: Memory>(
        &self,
        frame: &Arm64StackFrame,
        memory: &M,
    ) -> Result<Arm64StackFrame, WalkEnd> {
        match self.find(frame.lookup_address()) {
            Some(module) => caller_in_module_arm64(self, module, frame, memory),
            None => caller_outside_arm64(self, frame, memory),
        }
    }
}
