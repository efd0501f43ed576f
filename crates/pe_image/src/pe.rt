//! PE images: programs, DLLs and drivers. The file starts with a DOS header and a stub, then come the PE signature, the
//! COFF and the optional header, the section table, and the bytes of the sections. `PE::parse` reads all of it into one
//! value. Layout: <https://learn.microsoft.com/windows/win32/debug/pe-format>.

ghost use Rattle.std.specs.Prelude.{◌≡◌, [], IfOk, Ok};
ghost use Rattle.std.specs.Option.{option_and_then, option_map};
ghost use Rattle.pe_core.specs.Exports.{export_data_view};
ghost use Rattle.pe_core.specs.declared.header.TheConstants.{COFF_MACHINE_ARM64, COFF_MACHINE_X86_64};
ghost use Rattle.pe_core.specs.Options.{default_options};
ghost use Rattle.pe_resource.specs.Resources.{resource_view};
ghost use Rattle.pe_image.specs.FieldSteps.{first_fields_view};
ghost use Rattle.pe_image.specs.Core.{sections_read};
ghost use Rattle.pe_image.specs.CoreParts.{core_view, CoreHasLayout, CoreHasLibraries};
ghost use Rattle.pe_image.specs.Image.{exceptions_on, image_of, image_view, source_of, HasLibraries, ReturnsImage};
ghost use Rattle.pe_image.specs.ImageSteps.{ReturnsAfterCore};
ghost use Rattle.pe_image.specs.LayoutParts.{layout_of};
ghost use Rattle.pe_image.specs.Limits.{ReturnsImageWithin};
ghost use Rattle.pe_image.specs.Memory.{AsksForMemory, HasCertificates, MemoryOnlyIf};
ghost use Rattle.pe_image.specs.Unlisted.{ReturnsUnlisted};

use crate::core_image::{Core, Wanted};
use crate::fields::{FirstFields, resource_data};
use crate::layout::is_library;
use crate::limits::Limits;
use pe_core::{
    COFF_MACHINE_ARM64, COFF_MACHINE_X86_64, Export, ExportData, Header, Import, ImportData,
    ParseOptions, RelocationData, Result, SectionTable,
};
use pe_records::{CertificateDirectoryTable, DebugData};
use pe_resource::ResourceData;
use pe_unwind::ExceptionData;
use std::alloc::{Allocator, Global};
use std::fmt;

/// A PE image: a program, a DLL or a driver.
#[derive(Drop)]
pub struct PE<'a, A: Allocator + Copy + Drop = Global> {
    /// The file that the image was read from. The writers take the data of the sections from it.
    pub(crate) bytes: &'a [u8],
    /// The headers before the section table.
    pub header: Header<'a>,
    /// The section headers, in the order of the section table.
    pub sections: Vec<SectionTable, A>,
    /// Always 0.
    pub size: usize,
    /// The name of the DLL in the export directory.
    pub name: Option<&'a str>,
    /// Whether the image is a DLL: the characteristics have `IMAGE_FILE_DLL`.
    pub is_lib: bool,
    /// Whether the image is PE32+. `false` without an optional header.
    pub is_64: bool,
    /// The RVA of the entry point. 0 without an optional header.
    pub entry: u32,
    /// The preferred virtual address of the first byte of the loaded image. 0 without an optional header.
    pub image_base: u64,
    /// The export directory. `None` without one, and in both modes if it is invalid.
    pub export_data: Option<ExportData<'a>>,
    /// The import directory. `None` without one, or if `parse_imports` is off.
    pub import_data: Option<ImportData<'a, A>>,
    /// The exports of the export directory. Empty without `export_data`.
    pub exports: Vec<Export<'a>, A>,
    /// The imports of the import directory. Empty without `import_data`.
    pub imports: Vec<Import<'a>, A>,
    /// The names of the DLLs in the import directory, sorted by their bytes, each once.
    pub libraries: Vec<&'a str, A>,
    /// The debug data. This field and the next four are `None` or empty without their directory, and in permissive mode
    /// also if the directory is invalid.
    pub debug_data: Option<DebugData<'a>>,
    /// The exception data of x64 (`ExceptionData::parse_with_opts`) or ARM64 (`ExceptionData::parse_arm64_with_opts`),
    /// by the machine in the COFF header. `None` for any other machine.
    pub exception_data: Option<ExceptionData<'a>>,
    /// The base relocations.
    pub relocation_data: Option<RelocationData<'a>>,
    /// The attribute certificates. Empty if `parse_attribute_certificates` is off.
    pub certificates: CertificateDirectoryTable<'a, A>,
    /// The resources. `None` if `parse_resources` is off.
    pub resource_data: Option<ResourceData<'a>>,
}

/// Prints all public fields. The bytes of the file are left out.
impl<'a, A: Allocator + Copy + Drop + fmt::Debug> fmt::Debug for PE<'a, A> {
    fn fmt<W: fmt::Write>(&self, f: &mut fmt::Formatter<W>) -> fmt::Result {
        f.debug_struct("PE")
            .field("header", &self.header)
            .field("sections", &self.sections)
            .field("size", &self.size)
            .field("name", &self.name)
            .field("is_lib", &self.is_lib)
            .field("is_64", &self.is_64)
            .field("entry", &self.entry)
            .field("image_base", &self.image_base)
            .field("export_data", &self.export_data)
            .field("import_data", &self.import_data)
            .field("exports", &self.exports)
            .field("imports", &self.imports)
            .field("libraries", &self.libraries)
            .field("debug_data", &self.debug_data)
            .field("exception_data", &self.exception_data)
            .field("relocation_data", &self.relocation_data)
            .field("certificates", &self.certificates)
            .field("resource_data", &self.resource_data)
            .finish()
    }
}

/// The name of the DLL in the export directory, if there is one.
fn name_of<'a>(export_data: &Option<ExportData<'a>>) -> Option<&'a str>
    ensures { option_map (λ s. s.now) result ≡ option_and_then (λ d. d.name)
        (option_map export_data_view export_data.now) }
{
    match export_data {
        None => None,
        Some(data) => data.name,
    }
}

impl<'a, A: Allocator + Copy + Drop> PE<'a, A> {
    /// Joins the core, the fields before the resources, and the resources.
    #[tactic(auto, unfolding(crate::specs::LayoutParts::layout_of))]
    fn of_parts(
        bytes: &'a [u8],
        core: Core<'a, A>,
        first: FirstFields<'a, A>,
        resource_data: Option<ResourceData<'a>>,
    ) -> PE<'a, A>
        requires { CoreHasLayout core }
        ensures view { image_view result ≡ image_of (core_view core.entry)
            (first_fields_view first.entry) (option_map resource_view resource_data.entry) }
        ensures libraries { CoreHasLibraries core.entry → HasLibraries result }
        ensures names { result.libraries.items ≡ core.entry.libraries.items }
        ensures source { source_of result ≡ bytes.entry.now }
    {
        let Core {
            header,
            sections,
            export_data,
            exports,
            import_data,
            imports,
            libraries,
            layout,
        } = core;
        let FirstFields {
            debug_data,
            exception_data,
            relocation_data,
            certificates,
        } = first;
        PE {
            bytes,
            size: 0,
            name: name_of(&export_data),
            is_lib: is_library(&header),
            is_64: layout.is_64,
            entry: layout.entry,
            image_base: layout.image_base,
            header,
            sections,
            export_data,
            import_data,
            exports,
            imports,
            libraries,
            debug_data,
            exception_data,
            relocation_data,
            certificates,
            resource_data,
        }
    }

    /// Reads the remaining fields of the image with this core. In strict mode the first invalid one is the error.
    #[tactic(auto, using(crate::proofs::Requests::from_nothing))]
    fn with_core(
        alloc: A,
        bytes: &'a [u8],
        opts: &ParseOptions,
        core: Core<'a, A>,
    ) -> Result<PE<'a, A>>
        requires layout { CoreHasLayout core }
        ensures image { ReturnsAfterCore bytes.entry.now opts.now (core_view core.entry) result }
        ensures memory { MemoryOnlyIf (HasCertificates bytes.entry.now opts.now
            (core_view core.entry).header.optional_header) result }
        ensures libraries { IfOk result (λ p. CoreHasLibraries core.entry → HasLibraries p) }
        ensures names { IfOk result (λ p. p.libraries.items ≡ core.entry.libraries.items) }
        ensures source { IfOk result (λ p. source_of p ≡ bytes.entry.now) }
    {
        let layout = core.layout;
        let first = FirstFields::read(alloc, bytes, opts, &core, &layout)?;
        let resource_data = resource_data(alloc, bytes, opts, &core.sections, &layout)?;
        Ok(PE::of_parts(bytes, core, first, resource_data))
    }

    /// Reads the image in `bytes`, a whole file, in strict mode and with all directories. Errors: those of
    /// `parse_with_opts` in strict mode, in the same order.
    pub fn parse(alloc: A, bytes: &'a [u8]) -> Result<PE<'a, A>>
        ensures image { ReturnsImage bytes.entry.now default_options result }
        ensures memory { MemoryOnlyIf (AsksForMemory bytes.entry.now default_options) result }
        ensures sections { IfOk result
            (λ p. sections_read bytes.entry.now default_options ≡ Ok (image_view p).sections) }
        ensures libraries { IfOk result HasLibraries }
        ensures source { IfOk result (λ p. source_of p ≡ bytes.entry.now) }
    {
        PE::parse_with_opts(alloc, bytes, &ParseOptions::default())
    }

    /// Reads the image in `bytes`, a whole file. Errors, in this order:
    /// - in both modes: those of `Header::parse_with_opts`; `Short` if the section headers are truncated; those of the
    ///   import directory, then those of its imports;
    /// - in strict mode: those of the debug data, the exception data, the base relocations, the certificates and the
    ///   resources. Permissive mode leaves an invalid one of these empty.
    ///
    /// An invalid export directory counts as absent in both modes. Memory is asked for section headers, exports,
    /// imports with their libraries, and certificates alone, and only if the image has some. `Memory` is returned in
    /// both modes, and only if the headers and the section headers are valid. An allocation failure never empties a
    /// field.
    pub fn parse_with_opts(alloc: A, bytes: &'a [u8], opts: &ParseOptions) -> Result<PE<'a, A>>
        ensures image { ReturnsImage bytes.entry.now opts.now result }
        ensures memory { MemoryOnlyIf (AsksForMemory bytes.entry.now opts.now) result }
        ensures sections { IfOk result
            (λ p. sections_read bytes.entry.now opts.now ≡ Ok (image_view p).sections) }
        ensures libraries { IfOk result HasLibraries }
        ensures source { IfOk result (λ p. source_of p ≡ bytes.entry.now) }
    {
        let core = Core::read(alloc, bytes, opts)?;
        PE::with_core(alloc, bytes, opts, core)
    }

    /// Reads the image in `bytes`, a whole file, as `parse_with_opts` does, but leaves `libraries` empty. Its errors are the same.
    /// Names of DLLs may share their bytes in a hostile image, and to sort them then takes quadratic time.
    pub fn parse_without_libraries(
        alloc: A,
        bytes: &'a [u8],
        opts: &ParseOptions,
    ) -> Result<PE<'a, A>>
        ensures image { ReturnsImage bytes.entry.now opts.now result }
        ensures memory { MemoryOnlyIf (AsksForMemory bytes.entry.now opts.now) result }
        ensures sections { IfOk result
            (λ p. sections_read bytes.entry.now opts.now ≡ Ok (image_view p).sections) }
        ensures libraries { IfOk result (λ p. p.libraries.items ≡ []) }
        ensures source { IfOk result (λ p. source_of p ≡ bytes.entry.now) }
    {
        let core = Core::read_unlisted(alloc, bytes, opts)?;
        PE::with_core(alloc, bytes, opts, core)
    }

    /// Reads the image in `bytes`, a whole file, as `parse_with_opts` does, but leaves `imports` and `libraries` empty. Its errors
    /// are the same, also those of the imports. Records may share lookup entries in a hostile image, and to list the import of each
    /// then takes quadratic time and memory.
    pub fn parse_without_lists(alloc: A, bytes: &'a [u8], opts: &ParseOptions) -> Result<PE<'a, A>>
        ensures image { ReturnsUnlisted bytes.entry.now opts.now result }
        ensures memory { MemoryOnlyIf (AsksForMemory bytes.entry.now opts.now) result }
        ensures sections { IfOk result
            (λ p. sections_read bytes.entry.now opts.now ≡ Ok (image_view p).sections) }
        ensures libraries { IfOk result (λ p. p.libraries.items ≡ []) }
        ensures source { IfOk result (λ p. source_of p ≡ bytes.entry.now) }
    {
        let wanted = Wanted {
            most: None,
            libraries: false,
            imports: false,
        };
        let core = Core::read_within(alloc, bytes, opts, wanted)?;
        PE::with_core(alloc, bytes, opts, core)
    }

    /// Reads the image in `bytes`, a whole file, as `parse_with_opts` does, unless it has more than a limit allows.
    /// Import records may share their lookup entries, so the imports of a file of 1 MiB may not fit in memory. An image
    /// with more of them than `limits.imports` is refused as `ImportsLimit`, in both modes, after the errors of its
    /// import directory and before those of its imports, of which none is listed.
    pub fn parse_with_limits(
        alloc: A,
        bytes: &'a [u8],
        opts: &ParseOptions,
        limits: &Limits,
    ) -> Result<PE<'a, A>>
        ensures image { ReturnsImageWithin limits.now.imports bytes.entry.now opts.now result }
        ensures memory { MemoryOnlyIf (AsksForMemory bytes.entry.now opts.now) result }
        ensures sections { IfOk result
            (λ p. sections_read bytes.entry.now opts.now ≡ Ok (image_view p).sections) }
        ensures libraries { IfOk result HasLibraries }
        ensures source { IfOk result (λ p. source_of p ≡ bytes.entry.now) }
    {
        let wanted = Wanted {
            most: Some(limits.imports),
            libraries: true,
            imports: true,
        };
        let core = Core::read_within(alloc, bytes, opts, wanted)?;
        PE::with_core(alloc, bytes, opts, core)
    }

    /// The exception data of an x64 image, whose entries `functions` and `find_function` read. `None` without any, and
    /// for any other machine.
    pub fn x64_exceptions(&self) -> Option<&ExceptionData<'a>>
        ensures { option_map (λ e. e.now) result
            ≡ exceptions_on COFF_MACHINE_X86_64 (image_view self.now) }
    {
        self.exceptions_on(COFF_MACHINE_X86_64)
    }

    /// The exception data of an ARM64 image, whose entries `functions_arm64` reads. `None` without any, and for any
    /// other machine.
    pub fn arm64_exceptions(&self) -> Option<&ExceptionData<'a>>
        ensures { option_map (λ e. e.now) result
            ≡ exceptions_on COFF_MACHINE_ARM64 (image_view self.now) }
    {
        self.exceptions_on(COFF_MACHINE_ARM64)
    }

    /// The exception data, if the image is for this machine.
    fn exceptions_on(&self, machine: u16) -> Option<&ExceptionData<'a>>
        ensures { option_map (λ e. e.now) result ≡ exceptions_on machine (image_view self.now) }
    {
        match &self.exception_data {
            Some(exceptions) if self.header.coff_header.machine == machine => Some(exceptions),
            _ => None,
        }
    }
}
