//! What a walk asks of the modules of a process, however a caller keeps them.

ghost use Rattle.std.specs.Prelude.{◌≡◌, List, OnErr};
ghost use Rattle.pe_frame.specs.Arm64Walks as arm64;
ghost use Rattle.pe_frame.specs.FrameWalks.{frame_left};
ghost use Rattle.pe_frame.specs.Modules.{is_after_call, is_after_call_arm64, is_code, is_code_return, is_code_return_arm64, is_in_unknown, call_target};
ghost use Rattle.pe_frame.specs.Walks.{Calls};
ghost use Rattle.pe_frame.specs.declared.modules.Module.{Module};

use crate::arm64::{Arm64StackFrame, caller_in_module_arm64, caller_outside_arm64};
use crate::memory::Memory;
use crate::modules::Modules;
use crate::walk::{StackFrame, WalkEnd, caller_in_module, caller_outside};

/// The modules of a process, however they are kept, as a walk asks for the calls in their code.
pub trait CallSites {
    // The modules, of which the first that has an address is that of the address.
    ghost list: { Self → List Module };

    /// Whether an address is one after a call.
    fn ends_call(&self, address: u64) -> bool
        ensures { result ≡ is_after_call (list self.now) address };

    /// Whether an address is one after a call in an executable section.
    fn ends_code_call(&self, address: u64) -> bool
        ensures { result ≡ is_code_return (list self.now) address };

    /// Where the call of an executable section leads that ends at an address, if it is E8 with the distance of its target.
    fn target_of_call(&self, address: u64) -> Option<u64>
        ensures { result ≡ call_target (list self.now) address };

    /// Whether an address is one of an executable section, on each machine.
    fn is_code(&self, address: u64) -> bool
        ensures { result ≡ is_code (list self.now) address };

    /// Whether an address is in a module whose image is not at hand.
    fn is_in_unknown(&self, address: u64) -> bool
        ensures { result ≡ is_in_unknown (list self.now) address };

    /// Whether an address is one after a call on ARM64.
    fn ends_call_arm64(&self, address: u64) -> bool
        ensures { result ≡ is_after_call_arm64 (list self.now) address };

    /// The same in an executable section.
    fn ends_code_call_arm64(&self, address: u64) -> bool
        ensures { result ≡ is_code_return_arm64 (list self.now) address };
}

/// The modules of a process, however they are kept, as a walk asks for the caller of a frame.
pub trait LoadedModules {
    // The modules, of which the first that has an address is that of the address.
    ghost modules: { Self → List Module };

    /// Makes a frame that of its caller, or says why there is none: [`caller_in_module`] by the module that has the lookup address
    /// of the frame, or [`caller_outside`] if none does. Where there is none the frame stays. A frame of 400 bytes is changed where it
    /// is, since moving it takes longer than the step.
    fn become_caller<M: Memory>(&self, frame: &mut StackFrame, memory: &M) -> Result<(), WalkEnd>
        ensures caller { Calls
            (record { memory = M.word memory.now; modules = modules self.now })
            frame.old (frame_left result frame.new) }
        ensures kept { OnErr result (frame.new ≡ frame.old) };

    /// The frame of the caller of a frame on ARM64, or why there is none: [`caller_in_module_arm64`] or [`caller_outside_arm64`].
    fn caller_of_arm64<M: Memory>(
        &self,
        frame: &Arm64StackFrame,
        memory: &M,
    ) -> Result<Arm64StackFrame, WalkEnd>
        ensures { arm64.Calls
            (record { memory = M.word memory.now; modules = modules self.now })
            frame.now result };
}

impl<'a> CallSites for Modules<'a> {
    ghost list = { λ m. m.modules.now };

    fn ends_call(&self, address: u64) -> bool {
        self.is_after_call(address)
    }

    fn ends_code_call(&self, address: u64) -> bool {
        self.is_code_return(address)
    }

    fn target_of_call(&self, address: u64) -> Option<u64> {
        self.call_target(address)
    }

    fn is_code(&self, address: u64) -> bool {
        // The method of the type comes before that of the trait.
        Modules::is_code(self, address)
    }

    fn is_in_unknown(&self, address: u64) -> bool {
        Modules::is_in_unknown(self, address)
    }

    fn ends_call_arm64(&self, address: u64) -> bool {
        self.is_after_call_arm64(address)
    }

    fn ends_code_call_arm64(&self, address: u64) -> bool {
        self.is_code_return_arm64(address)
    }
}

impl<'a> LoadedModules for Modules<'a> {
    ghost modules = { λ m. m.modules.now };

    fn become_caller<M: Memory>(&self, frame: &mut StackFrame, memory: &M) -> Result<(), WalkEnd> {
        match self.find(frame.lookup_address()) {
            Some(module) => caller_in_module(self, module, frame, memory),
            None => caller_outside(self, frame, memory),
        }
    }

    fn caller_of_arm64<M: Memory>(
        &self,
        frame: &Arm64StackFrame,
        memory: &M,
    ) -> Result<Arm64StackFrame, WalkEnd> {
        match self.find(frame.lookup_address()) {
            Some(module) => caller_in_module_arm64(self, module, frame, memory),
            None => caller_outside_arm64(self, frame, memory),
        }
    }
}
