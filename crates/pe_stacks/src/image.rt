//! The images of the modules of a minidump. A dump says of a module the time stamp and the size of its image, by which a symbol server
//! files images too. The name says nothing: any file may have it.

ghost use Rattle.std.specs.Prelude.{◌≡◌, [], IfErr};
ghost use Rattle.std.specs.Option.{option_map};
ghost use Rattle.pe_core.specs.Header.{header_view};
ghost use Rattle.pe_core.specs.Refusals.{IfMemory, ReturnsAs, ReturnsUnlessMemory};
ghost use Rattle.pe_stacks.specs.MemoryRuns.{bytes_at};
ghost use Rattle.pe_stacks.specs.Images.{AsksForSections, ModuleImageView, as_loaded, exceptions_of, image_of, is_image_of, module_image_view};

use crate::run_memory::MemoryRuns;
use pe_core::{
    COFF_MACHINE_ARM64, COFF_MACHINE_X86_64, Header, OptionalHeader, ParseOptions, Result,
    SectionTable,
};
use pe_frame::Module;
use pe_unwind::ExceptionData;
use std::alloc::Allocator;

/// Whether the image with these headers is that of a module of a dump: its time stamp and its size are those of the module. The
/// checksum is not asked.
pub fn is_image_of(header: &Header<'_>, module: &pe_minidump::Module) -> bool
    ensures { result ≡ is_image_of (header_view header.now) module.now }
{
    match &header.optional_header {
        Some(optional) => {
            header.coff_header.time_date_stamp == module.time_date_stamp
                && optional.windows_fields.size_of_image == module.size_of_image
        }
        None => false,
    }
}

/// The image of a module, of which a walk reads sections and exception data.
#[derive(Drop)]
pub struct ModuleImage<'a, A: Allocator + Drop> {
    /// The bytes of the image, a file or as loaded, as `opts` say.
    pub bytes: &'a [u8],
    /// Its section headers.
    pub sections: Vec<SectionTable, A>,
    /// Its exception data. `None` if it has none, or a directory of no bytes, and on other machines than x64 and ARM64.
    pub exceptions: Option<ExceptionData<'a>>,
    /// The options with which it was parsed.
    pub opts: ParseOptions,
}

/// The exception data of an image. `None` without any, also where their directory has no bytes, and on other machines than x64 and
/// ARM64.
fn exceptions_of<'a>(
    bytes: &'a [u8],
    header: &Header<'a>,
    sections: &[SectionTable],
    opts: &ParseOptions,
) -> Result<Option<ExceptionData<'a>>>
    ensures { ReturnsAs (λ d. d) result
        (exceptions_of bytes.entry.now (header_view header.now) sections.now opts.now) }
{
    let Some(optional) = &header.optional_header else {
        return Ok(None);
    };
    let Some(directory) = optional.data_directories.get_exception_table() else {
        return Ok(None);
    };
    if directory.size == 0 {
        return Ok(None);
    }
    let alignment = optional.windows_fields.file_alignment;
    match header.coff_header.machine {
        COFF_MACHINE_X86_64 => Ok(Some(ExceptionData::parse_with_opts(
            bytes, directory, sections, alignment, opts,
        )?)),
        COFF_MACHINE_ARM64 => Ok(Some(ExceptionData::parse_arm64_with_opts(
            bytes, directory, sections, alignment, opts,
        )?)),
        _ => Ok(None),
    }
}

impl<'a, A: Allocator + Drop> ModuleImage<'a, A> {
    /// The image in these bytes, if it is that of a module. `None` if it is another one. Errors, in order: those of
    /// `Header::parse_with_opts`; then of an image of the module those of its section headers and of its exception data. Memory is
    /// asked for only for the section headers of such an image.
    #[tactic(auto, using(crate::proofs::NoMemory::header_owes_nothing))]
    pub fn parse(
        alloc: A,
        bytes: &'a [u8],
        opts: &ParseOptions,
        module: &pe_minidump::Module,
    ) -> Result<Option<ModuleImage<'a, A>>>
        ensures image { ReturnsUnlessMemory (option_map module_image_view) result
            (image_of bytes.entry.now opts.now module.now) }
        ensures memory { IfErr result (λ e. IfMemory e (AsksForSections bytes.entry.now opts.now module.now)) }
    {
        let header = Header::parse_with_opts(bytes, opts)?;
        if !is_image_of(&header, module) {
            return Ok(None);
        }
        let sections = header.sections(alloc, bytes)?;
        let exceptions = exceptions_of(bytes, &header, &sections, opts)?;
        Ok(Some(ModuleImage {
            bytes,
            sections,
            exceptions,
            opts: *opts,
        }))
    }

    /// The image of a module in the dump's own memory, as loaded: as many bytes from its address on as the dump has one after the
    /// other. It ends at the first gap, which is never read as zeros. `None` and errors as in `parse`.
    pub fn from_memory<B: Allocator + Copy + Drop>(
        alloc: A,
        memory: &MemoryRuns<'a, B>,
        opts: &ParseOptions,
        module: &pe_minidump::Module,
    ) -> Result<Option<ModuleImage<'a, A>>>
        ensures image { ReturnsUnlessMemory (option_map module_image_view) result
            (image_of (bytes_at memory.now.bytes.now memory.now.runs.items module.now.base_of_image module.now.size_of_image)
            (as_loaded opts.now) module.now) }
        ensures memory { IfErr result (λ e. IfMemory e (AsksForSections
            (bytes_at memory.now.bytes.now memory.now.runs.items module.now.base_of_image module.now.size_of_image)
            (as_loaded opts.now) module.now)) }
    {
        let bytes = memory.bytes_at(module.base_of_image, u64::from(module.size_of_image));
        let opts = ParseOptions {
            resolve_rva: false,
            ..*opts
        };
        ModuleImage::parse(alloc, bytes, &opts, module)
    }

    /// The image as walks take it, with the addresses of its module.
    pub fn loaded(&self, module: &pe_minidump::Module) -> Module<'_>
        ensures { (result.base ≡ module.now.base_of_image) × (result.size ≡ module.now.size_of_image)
            × (result.bytes.now ≡ self.now.bytes.now) × (result.sections.now ≡ self.now.sections.items)
            × (result.index.now ≡ [])
            × (option_map (λ e. e.now) result.exceptions ≡ self.now.exceptions)
            × (result.opts ≡ self.now.opts) }
    {
        Module {
            base: module.base_of_image,
            size: module.size_of_image,
            bytes: self.bytes,
            sections: &self.sections,
            index: &[],
            exceptions: self.exceptions.as_ref(),
            opts: self.opts,
        }
    }
}
