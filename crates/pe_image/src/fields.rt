//! The directories that are read after the core of an image: debug data, exception data, base relocations, certificates
//! and resources. An invalid one is an error in strict mode and an empty field in permissive mode. Layout:
//! <https://learn.microsoft.com/windows/win32/debug/pe-format>, data directories of the optional header.

ghost use Rattle.std.specs.Prelude.{◌≡◌, map, None, if◌then◌else◌};
ghost use Rattle.std.specs.Option.{option_map};
ghost use Rattle.pe_core.specs.Refusals.{ReturnsUnlessMemory};
ghost use Rattle.pe_core.specs.Relocations.{directory_bytes};
ghost use Rattle.pe_records.specs.Certificates.{certificate_view, certificates_at};
ghost use Rattle.pe_records.specs.DebugRecords.{debug_view, debug_data};
ghost use Rattle.pe_resource.specs.Resources.{resource_view};
ghost use Rattle.pe_unwind.specs.ExceptionTable.{exception_at};
ghost use Rattle.pe_image.specs.CoreParts.{core_view};
ghost use Rattle.pe_image.specs.Fields.{field, exceptions_for, IsResourceField, list_by_mode};
ghost use Rattle.pe_image.specs.LayoutParts.{layout_of};
ghost use Rattle.pe_image.specs.Memory.{StartsCertificates, HasCertificates, MemoryOnlyIf};
ghost use Rattle.pe_image.specs.FieldSteps.{by_mode, first_fields_view, first_fields_in_turn, ReturnsResources};

use crate::core_image::Core;
use crate::layout::Layout;
use pe_core::{
    COFF_MACHINE_ARM64, COFF_MACHINE_X86_64, DataDirectory, ParseOptions, RelocationData, Result,
    SectionTable,
};
use pe_records::{CertificateDirectoryTable, DebugData, enumerate_certificates};
use pe_resource::ResourceData;
use pe_unwind::ExceptionData;
use std::alloc::Allocator;

/// The debug data, by mode.
#[tactic(auto, using(crate::proofs::ByMode::gives_by_mode, crate::proofs::ByMode::never_by_mode, crate::proofs::NoMemory::debug_lacks))]
fn debug_data<'a>(
    bytes: &'a [u8],
    opts: &ParseOptions,
    sections: &[SectionTable],
    layout: &Layout,
) -> Result<Option<DebugData<'a>>>
    ensures data { ReturnsUnlessMemory
        (option_map debug_view) result (by_mode opts.now.parse_mode (field (λ d. debug_data
        opts.now bytes.entry.now d sections.now layout.now.file_alignment 0) layout.now.debug)) }
    ensures no_memory { MemoryOnlyIf ⊥ result }
{
    let Some(directory) = layout.debug else {
        return Ok(None);
    };
    let alignment = layout.file_alignment;
    let parsed = DebugData::parse_with_opts(bytes, directory, sections, alignment, opts);
    opts.parse_mode.none_if_refused(parsed)
}

/// The exception data, by mode. `None` for machines other than x64 and ARM64.
#[tactic(auto, using(crate::proofs::ByMode::gives_by_mode, crate::proofs::ByMode::never_by_mode, crate::proofs::NoMemory::exception_lacks))]
fn exception_data<'a>(
    bytes: &'a [u8],
    opts: &ParseOptions,
    sections: &[SectionTable],
    machine: u16,
    layout: &Layout,
) -> Result<Option<ExceptionData<'a>>>
    ensures data { ReturnsUnlessMemory (λ d. d) result
        (by_mode opts.now.parse_mode (exceptions_for machine (λ width d. exception_at width
        bytes.entry.now d sections.now layout.now.file_alignment opts.now) layout.now.exceptions)) }
    ensures no_memory { MemoryOnlyIf ⊥ result }
{
    let Some(directory) = layout.exceptions else {
        return Ok(None);
    };
    let alignment = layout.file_alignment;
    let parsed = match machine {
        COFF_MACHINE_X86_64 => {
            ExceptionData::parse_with_opts(bytes, directory, sections, alignment, opts)
        }
        COFF_MACHINE_ARM64 => {
            ExceptionData::parse_arm64_with_opts(bytes, directory, sections, alignment, opts)
        }
        _ => return Ok(None),
    };
    opts.parse_mode.none_if_refused(parsed)
}

/// The base relocations, by mode.
#[tactic(auto, using(crate::proofs::ByMode::gives_by_mode, crate::proofs::ByMode::never_by_mode, crate::proofs::NoMemory::relocations_lack))]
fn relocation_data<'a>(
    bytes: &'a [u8],
    opts: &ParseOptions,
    sections: &[SectionTable],
    layout: &Layout,
) -> Result<Option<RelocationData<'a>>>
    ensures data { ReturnsUnlessMemory (option_map (λ r. r.bytes.now)) result
        (by_mode opts.now.parse_mode (field (λ d. directory_bytes opts.now
        bytes.entry.now d sections.now layout.now.file_alignment) layout.now.relocations)) }
    ensures no_memory { MemoryOnlyIf ⊥ result }
{
    let Some(directory) = layout.relocations else {
        return Ok(None);
    };
    let alignment = layout.file_alignment;
    let parsed = RelocationData::parse_with_opts(bytes, directory, sections, alignment, opts);
    opts.parse_mode.none_if_refused(parsed)
}

/// The certificates, by mode. Empty if `parse_attribute_certificates` is off.
#[tactic(auto, using(crate::proofs::ByMode::starts_by_mode))]
fn certificates<'a, A: Allocator + Copy>(
    alloc: A,
    bytes: &'a [u8],
    opts: &ParseOptions,
    layout: &Layout,
) -> Result<CertificateDirectoryTable<'a, A>>
    ensures certificates { ReturnsUnlessMemory
        (λ found. map certificate_view found.items) result (list_by_mode opts.now.parse_mode
        (if opts.now.parse_attribute_certificates then field (λ d. certificates_at
        bytes.entry.now d.virtual_address d.size) layout.now.certificates else None)) }
    ensures memory { MemoryOnlyIf (StartsCertificates bytes.entry.now
        (if opts.now.parse_attribute_certificates then layout.now.certificates else None)) result }
{
    if !opts.parse_attribute_certificates {
        return Ok(Vec::new(alloc));
    }
    let Some(directory) = layout.certificates else {
        return Ok(Vec::new(alloc));
    };
    // The address of this directory is a file offset, not an RVA: certificates are not part of the loaded image.
    let offset = directory.virtual_address as usize;
    let parsed = enumerate_certificates(alloc, bytes, offset, directory.size as usize);
    match opts.parse_mode.none_if_refused(parsed)? {
        Some(found) => Ok(found),
        None => Ok(Vec::new(alloc)),
    }
}

/// The resources, by mode. `None` if `parse_resources` is off. No memory is asked for.
#[tactic(auto, using(crate::proofs::ByMode::resources_by_mode, crate::proofs::ByMode::never_if_not))]
pub fn resource_data<'a, A: Allocator + Copy + Drop>(
    alloc: A,
    bytes: &'a [u8],
    opts: &ParseOptions,
    sections: &[SectionTable],
    layout: &Layout,
) -> Result<Option<ResourceData<'a>>>
    ensures resources { ReturnsResources
        opts.now bytes.entry.now sections.now layout.now.file_alignment
        (if opts.now.parse_resources then layout.now.resources else None) result }
    ensures no_memory { MemoryOnlyIf ⊥ result }
{
    if !opts.parse_resources {
        return Ok(None);
    }
    let Some(directory) = layout.resources else {
        return Ok(None);
    };
    let alignment = layout.file_alignment;
    let parsed = ResourceData::parse_with_opts(alloc, bytes, directory, sections, alignment, opts);
    opts.parse_mode.none_if_refused(parsed)
}

/// The fields before the resources.
#[derive(Drop)]
pub struct FirstFields<'a, A: Allocator + Copy + Drop> {
    pub debug_data: Option<DebugData<'a>>,
    pub exception_data: Option<ExceptionData<'a>>,
    pub relocation_data: Option<RelocationData<'a>>,
    pub certificates: CertificateDirectoryTable<'a, A>,
}

impl<'a, A: Allocator + Copy + Drop> FirstFields<'a, A> {
    /// Reads the fields of an image with this core. In strict mode the first error is returned, in this order: of the
    /// debug data, the exception data, the base relocations, the certificates. `Memory` is returned in both modes.
    #[tactic(auto, using(crate::proofs::Requests::from_nothing), unfolding(crate::specs::FieldSteps::first_fields_in_turn, crate::specs::LayoutParts::layout_of))]
    pub fn read(
        alloc: A,
        bytes: &'a [u8],
        opts: &ParseOptions,
        core: &Core<'a, A>,
        layout: &Layout,
    ) -> Result<FirstFields<'a, A>>
        requires { layout.now ≡ layout_of (core_view core.now).header.optional_header }
        ensures fields { ReturnsUnlessMemory first_fields_view result
            (first_fields_in_turn bytes.entry.now opts.now (core_view core.now)) }
        ensures memory { MemoryOnlyIf (HasCertificates bytes.entry.now opts.now
            (core_view core.now).header.optional_header) result }
    {
        let machine = core.header.coff_header.machine;
        Ok(FirstFields {
            debug_data: debug_data(bytes, opts, &core.sections, layout)?,
            exception_data: exception_data(bytes, opts, &core.sections, machine, layout)?,
            relocation_data: relocation_data(bytes, opts, &core.sections, layout)?,
            certificates: certificates(alloc, bytes, opts, layout)?,
        })
    }
}
