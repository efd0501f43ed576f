//! The modules of a process: images, each with the address where it is loaded.

ghost use Rattle.std.specs.Prelude.{◌≡◌, ◌+◌, ◌-◌, ◌<◌, ◌≤◌, IfSome, IsTrue, MatchResult, Some};
ghost use Rattle.std.specs.List.{list_any};
ghost use Rattle.std.specs.Option.{option_map};
ghost use Rattle.pe_core.specs.SectionMap.{offset_in};
ghost use Rattle.pe_lookup.specs.AddressRanges.{AreAscending, IsOverlap, has_address};
ghost use Rattle.pe_lookup.specs.SectionIndexes.{sections_by};
ghost use Rattle.pe_frame.specs.Modules.{bytes_or_none, module_base, module_size, module_at, map_of_module, code_alignment, code_at, code_in, follows_call, is_after_call_in, is_after_call, is_after_call_arm64_in, is_after_call_arm64, executes, is_executable, is_code_of, is_code_return, is_code_return_of, is_code_return_arm64, is_code_return_arm64_of, is_code, is_in_unknown, is_unknown, call_target, call_target_of};

use crate::arm64::is_call_arm64;
use crate::call::{SIZE_OF_CALL_REL32, is_call, is_near_call, near_target};
use pe_core::{
    ParseOptions, RangeEntry, RvaMap, SectionMap, SectionTable, find_offset, mapped_offset,
    slice_at,
};
use pe_lookup::{
    AddressRange, first_overlap, has_address, range_with, section_started, sections_by,
};
use pe_unwind::ExceptionData;
use std::ops::Range;

/// `IMAGE_SCN_MEM_EXECUTE`: the section is executable.
const MEM_EXECUTE: u32 = 0x2000_0000;

/// The bytes of a call on ARM64.
const SIZE_OF_CALL_ARM64: u32 = 4;

/// How many bytes a call may have, the sizes that are seen most first.
const CALL_SIZES: [u8; 7] = [5, 6, 2, 3, 4, 7, 8];

/// A module of a process on x64 or ARM64: an image, and the addresses where it is loaded.
#[derive(Clone, Copy)]
pub struct Module<'a> {
    /// The address where it is loaded.
    pub base: u64,
    /// How many bytes it has there: `SizeOfImage` of the optional header.
    pub size: u32,
    /// The bytes of the image, a file or as loaded, as `opts` say.
    pub bytes: &'a [u8],
    /// Its section headers. None where its image is not at hand: then nothing says where its code is.
    pub sections: &'a [SectionTable],
    /// An index of the sections, by which its RVAs are mapped; no entries without one. A scan asks `sections` itself whether an RVA
    /// is executable.
    pub index: &'a [RangeEntry],
    /// Its exception data, parsed from `bytes`; without any no records describe its functions.
    pub exceptions: Option<&'a ExceptionData<'a>>,
    /// The options with which it was parsed.
    pub opts: ParseOptions,
}

/// The map from RVAs of a module to file offsets: the section map of its exception data, by its index where it has one.
#[derive(Clone, Copy)]
pub(crate) struct ModuleMap<'a> {
    pub module: &'a Module<'a>,
    pub exceptions: &'a ExceptionData<'a>,
}

impl<'a> RvaMap for ModuleMap<'a> {
    ghost offset = { λ m. map_of_module m.module.now m.exceptions.now };

    #[inline(always)]
    fn file_offset(&self, rva: u32) -> pe_core::Result<usize> {
        let module = self.module;
        let map = self
            .exceptions
            .section_map(module.sections_of(rva), &module.opts);
        mapped_offset(rva, map.sections(), map.file_alignment(), &map.opts())
    }
}

/// Modules that are not in ascending order, or overlap.
#[derive(Debug, Drop, thiserror::Error)]
#[error("module {0} starts before the end of the one before it")]
pub struct ModuleOrder(
    /// The index of the module.
    pub usize,
);

impl<'a> AddressRange for Module<'a> {
    ghost start_of = { module_base };

    ghost size_of = { module_size };

    fn start(&self) -> u64 {
        self.base
    }

    fn size(&self) -> u64 {
        u64::from(self.size)
    }
}

impl<'a> Module<'a> {
    /// The sections that may map an RVA: one at most, where the module has an index.
    #[inline(always)]
    fn sections_of(&self, rva: u32) -> &'a [SectionTable]
        ensures { result.now ≡ sections_by self.now.sections.now self.now.index.now rva }
    {
        sections_by(self.sections, self.index, u64::from(rva))
    }

    /// The code at these RVAs, by a section map of the module: one of the sections that may map the first of them. Empty where it is
    /// not all in the image.
    #[inline(always)]
    fn code_by(&self, map: &SectionMap<'_>, rvas: Range<u32>) -> &'a [u8]
        ensures { result.now ≡ bytes_or_none self.now.bytes.now
            (offset_in map.now rvas.start) (rvas.end - rvas.start) }
    {
        let Range { start: rva, end } = rvas;
        let alignment = map.file_alignment();
        match find_offset(rva as usize, map.sections(), alignment, &map.opts()) {
            Some(offset) => match slice_at(self.bytes, offset, end.saturating_sub(rva) as usize) {
                Ok(code) => code,
                Err(_) => &[],
            },
            None => &[],
        }
    }

    /// The code at these RVAs, by the section map of the module's exception data. Empty where it is not all in the image.
    #[inline(always)]
    pub(crate) fn code(&self, exceptions: &ExceptionData<'a>, rvas: Range<u32>) -> &'a [u8]
        ensures { result.now ≡ code_in self.now exceptions.now rvas.start rvas.end }
    {
        let map = exceptions.section_map(self.sections_of(rvas.start), &self.opts);
        self.code_by(&map, rvas)
    }

    /// The code at these RVAs, by the section map of the module's exception data, or without any by its sections alone. Empty where
    /// it is not all in the image.
    #[inline(always)]
    fn called_code(&self, rvas: Range<u32>) -> &'a [u8]
        ensures { result.now ≡ code_at self.now
            (code_alignment (option_map (λ e. e.now) self.now.exceptions)) rvas.start rvas.end }
    {
        match self.exceptions {
            Some(exceptions) => self.code(exceptions, rvas),
            None => {
                let map = SectionMap::new(self.sections_of(rvas.start), 1, &self.opts);
                self.code_by(&map, rvas)
            }
        }
    }

    /// The RVA of an address in the module, which may be its end.
    pub(crate) fn rva_of(&self, address: u64) -> u32
        requires { address ≤ self.now.base + self.now.size }
        ensures { result ≡ address - self.now.base }
    {
        let size = u64::from(self.size);
        u64::min(address.saturating_sub(self.base), size) as u32
    }

    /// Whether the bytes before an RVA are a call of so many bytes.
    #[inline(always)]
    fn follows_call(&self, rva: u32, size: u8) -> bool
        ensures { result ≡ follows_call self.now
            (code_alignment (option_map (λ e. e.now) self.now.exceptions)) rva size }
    {
        let size = u32::from(size);
        size <= rva && is_call(self.called_code(rva - size..rva))
    }

    /// Whether the bytes before an RVA are a call of one of these sizes. Out of line, and of a module that is passed whole: where the
    /// usual size is enough, nothing is made of it but what is read.
    #[inline(never)]
    fn follows_any(self, rva: u32, sizes: &[u8]) -> bool
        ensures { result ≡ list_any (follows_call self.entry
            (code_alignment (option_map (λ e. e.now) self.entry.exceptions)) rva) sizes.now }
    {
        sizes.iter().any(|size| self.follows_call(rva, *size))
    }

    /// Whether an address, which may be the end of the module, is one after a call. Functions that no exception data describe call
    /// too: code is read by the sections.
    #[inline(always)]
    pub fn is_after_call(&self, address: u64) -> bool
        requires { address ≤ self.now.base + self.now.size }
        ensures { result ≡ is_after_call_in self.now address }
    {
        self.is_after_near_call(address) || self.follows_any(self.rva_of(address), &CALL_SIZES)
    }

    /// Whether the five bytes before an address, which may be the end of the module, are a `call` by the distance of its target, as
    /// those of nearly all calls are.
    #[tactic(auto, unfolding(crate::specs::CallForms::is_call))]
    #[inline(always)]
    pub fn is_after_near_call(&self, address: u64) -> bool
        requires { address ≤ self.now.base + self.now.size }
        ensures { IsTrue result → IsTrue (is_after_call_in self.now address) }
    {
        let (size, rva) = (SIZE_OF_CALL_REL32, self.rva_of(address));
        size <= rva && is_near_call(self.called_code(rva - size..rva))
    }

    /// Whether an address, which may be the end of the module, is one after a call on ARM64.
    pub fn is_after_call_arm64(&self, address: u64) -> bool
        requires { address ≤ self.now.base + self.now.size }
        ensures { result ≡ is_after_call_arm64_in self.now address }
    {
        let (size, rva) = (SIZE_OF_CALL_ARM64, self.rva_of(address));
        size <= rva && is_call_arm64(self.called_code(rva - size..rva))
    }

    /// Whether the section that halving finds of an RVA is executable, and has it.
    #[tactic(auto, unfolding(crate::specs::Modules::is_executable))]
    fn is_executable(&self, rva: u32) -> bool
        ensures { result ≡ is_executable self.now.sections.now rva }
    {
        section_started(self.sections, rva)
            .iter()
            .any(|section| executes(section, rva))
    }

    /// Whether an address of the module is one of an executable section: of the last that starts at or before it, found by halving.
    pub fn is_code(&self, address: u64) -> bool
        requires { address ≤ self.now.base + self.now.size }
        ensures { result ≡ is_code_of (Some self.now) address }
    {
        self.is_executable(self.rva_of(address))
    }

    /// Whether the image of the module is not at hand: it has no sections.
    pub fn is_unknown(&self) -> bool
        ensures { result ≡ is_unknown self.now }
    {
        self.sections.is_empty()
    }

    /// Whether an address, which may be the end of the module, is one after a call in an executable section. Asked is the last section
    /// that starts at or before the last byte of the call, found by halving: in a valid image no other has it.
    pub fn is_code_return(&self, address: u64) -> bool
        requires { address ≤ self.now.base + self.now.size }
        ensures { result ≡ is_code_return_of (Some self.now) address }
    {
        let last = address.saturating_sub(1);
        self.is_executable(self.rva_of(last)) && self.is_after_call(address)
    }

    /// The address to which the call of an executable section leads that ends at an address, which may be the end of the module.
    /// None where the five bytes before it are no `call` by the distance of its target, E8.
    pub fn call_target(&self, address: u64) -> Option<u64>
        requires { address ≤ self.now.base + self.now.size }
        ensures { result ≡ call_target_of (Some self.now) address }
    {
        let (size, rva) = (SIZE_OF_CALL_REL32, self.rva_of(address));
        if size <= rva && self.is_executable(rva - 1) {
            near_target(self.called_code(rva - size..rva), address)
        } else {
            None
        }
    }

    /// The same on ARM64.
    pub fn is_code_return_arm64(&self, address: u64) -> bool
        requires { address ≤ self.now.base + self.now.size }
        ensures { result ≡ is_code_return_arm64_of (Some self.now) address }
    {
        let last = address.saturating_sub(1);
        self.is_executable(self.rva_of(last)) && self.is_after_call_arm64(address)
    }
}

/// Whether a section is executable, and has an RVA.
fn executes(section: &SectionTable, rva: u32) -> bool
    ensures { result ≡ executes rva section.now }
{
    section.characteristics / MEM_EXECUTE % 2 == 1 && has_address(section, u64::from(rva))
}

/// The modules of a process, by the address where each is loaded.
#[derive(Clone, Copy)]
pub struct Modules<'a> {
    modules: &'a [Module<'a>],
    ghost ascending: { AreAscending module_base module_size modules.now },
}

impl<'a> Modules<'a> {
    /// These modules, in ascending order of their addresses. Error: the index of the first module that starts before the end
    /// of the one before it.
    pub fn new(modules: &'a [Module<'a>]) -> Result<Modules<'a>, ModuleOrder>
        ensures { MatchResult result (λ m. m.modules.now ≡ modules.entry.now)
            (λ e. IsOverlap module_base module_size modules.entry.now e.0) }
    {
        match first_overlap(modules) {
            None => Ok(Modules { modules }),
            Some(index) => Err(ModuleOrder(index)),
        }
    }

    /// The module that has an address, by binary search.
    pub fn find(&self, address: u64) -> Option<&'a Module<'a>>
        ensures found { option_map (λ m. m.now) result ≡ module_at self.now.modules.now address }
        ensures has { IfSome result (λ m. IsTrue (has_address module_base module_size address m.now)) }
        ensures inside { IfSome result (λ m. address < m.now.base + m.now.size) }
    {
        range_with(self.modules, address)
    }

    /// Whether an address is one after a call: the bytes before it are a call, in the module that has the last of them. So it
    /// may be a return address, and an address of which this does not hold is none.
    ///
    /// A call is E8 with four bytes, or FF /2 with its operand and, before it, a REX prefix or none. The bytes are read by the
    /// section map of the module's exception data, or without any by its sections alone.
    pub fn is_after_call(&self, address: u64) -> bool
        ensures { result ≡ is_after_call self.now.modules.now address }
    {
        match self.find(address.saturating_sub(1)) {
            Some(module) => module.is_after_call(address),
            None => false,
        }
    }

    /// The same on ARM64, where a call is `BL`, or `BLR` in one of its forms.
    pub fn is_after_call_arm64(&self, address: u64) -> bool
        ensures { result ≡ is_after_call_arm64 self.now.modules.now address }
    {
        let last = address.saturating_sub(1);
        match self.find(last) {
            Some(module) => module.is_after_call_arm64(address),
            None => false,
        }
    }

    /// Whether an address is one after a call in an executable section.
    pub(crate) fn is_code_return(&self, address: u64) -> bool
        ensures { result ≡ is_code_return self.now.modules.now address }
    {
        let last = address.saturating_sub(1);
        match self.find(last) {
            Some(module) => module.is_code_return(address),
            None => false,
        }
    }

    /// The address to which the call of an executable section leads that ends at an address, if it is E8 with the distance of its
    /// target.
    pub(crate) fn call_target(&self, address: u64) -> Option<u64>
        ensures { result ≡ call_target self.now.modules.now address }
    {
        let last = address.saturating_sub(1);
        match self.find(last) {
            Some(module) => module.call_target(address),
            None => None,
        }
    }

    /// Whether an address is one of an executable section.
    pub(crate) fn is_code(&self, address: u64) -> bool
        ensures { result ≡ is_code self.now.modules.now address }
    {
        match self.find(address) {
            Some(module) => module.is_code(address),
            None => false,
        }
    }

    /// Whether an address is in a module whose image is not at hand.
    pub(crate) fn is_in_unknown(&self, address: u64) -> bool
        ensures { result ≡ is_in_unknown self.now.modules.now address }
    {
        match self.find(address) {
            Some(module) => module.is_unknown(),
            None => false,
        }
    }

    /// The same on ARM64.
    pub(crate) fn is_code_return_arm64(&self, address: u64) -> bool
        ensures { result ≡ is_code_return_arm64 self.now.modules.now address }
    {
        let last = address.saturating_sub(1);
        match self.find(last) {
            Some(module) => module.is_code_return_arm64(address),
            None => false,
        }
    }
}
