//! The core of an image: headers, section headers, exports and imports. Both modes read it alike: an invalid part is an
//! error, but for an invalid export directory, which counts as absent. `PE` adds the other directories to it. Layout:
//! <https://learn.microsoft.com/windows/win32/debug/pe-format>.

ghost use Rattle.std.specs.Prelude.{◌≡◌, ◌<◌, ◌⊎◌, [], false, map, true, IfErr, IfOk, IfSome, IsSome, IsSomeAnd, Ok};
ghost use Rattle.pe_core.specs.declared.error.Error.TheVariants.{Memory};
ghost use Rattle.std.specs.Option.{option_map};
ghost use Rattle.pe_core.specs.Exports.{export_data_view, export_view};
ghost use Rattle.pe_core.specs.Header.{header_view};
ghost use Rattle.pe_core.specs.Imports.{entry_size, import_data_view, import_view};
ghost use Rattle.pe_core.specs.Refusals.{Returns, ReturnsUnlessMemory, ReturnsUnlessMemoryAfter};
ghost use Rattle.pe_core.specs.SectionMap.{map_view, offset_in, section_map};
ghost use Rattle.pe_core.specs.Sections.{sections_of};
ghost use Rattle.pe_image.specs.Core.{export_data_of, exports_of, import_data_of, imports_of, core_with, sections_read, core_of, AreLibrariesOf};
ghost use Rattle.pe_image.specs.CoreParts.{core_view, imported_view, CoreHasLayout, CoreHasLibraries};
ghost use Rattle.pe_image.specs.LayoutParts.{import_directory_in, layout_of};
ghost use Rattle.pe_image.specs.Limits.{entry_count, import_count, imports_with, number_or_0};
ghost use Rattle.pe_image.specs.LimitSteps.{imported_of, unless_above};
ghost use Rattle.pe_image.specs.SharedLists.{AllStand, core_if_listed, if_listed, tested};
ghost use Rattle.pe_image.specs.Memory.{AsksForMemory, HasExports, HasImports, MemoryOnlyIf};

use crate::layout::Layout;
use crate::shared_lists::without_shared_entries;
use pe_core::laws::names_of_records_are_read_again;
use pe_core::{
    DataDirectory, Error, Export, ExportData, Header, Import, ImportData, MappedBytes,
    ParseOptions, Reason, Result, SectionIndex, SectionMap, SectionTable, find_offset, lookup_size,
};
use std::alloc::Allocator;

/// The core of an image. The fields but `layout` are those of `PE` with the same names.
#[derive(Drop)]
pub struct Core<'a, A: Allocator + Copy + Drop> {
    pub header: Header<'a>,
    pub sections: Vec<SectionTable, A>,
    pub export_data: Option<ExportData<'a>>,
    pub exports: Vec<Export<'a>, A>,
    pub import_data: Option<ImportData<'a, A>>,
    pub imports: Vec<Import<'a>, A>,
    pub libraries: Vec<&'a str, A>,
    /// What its optional header says about the image.
    pub layout: Layout,
}

/// What comes before the directories: the headers and the section headers.
#[derive(Drop)]
struct Headers<'a, A: Allocator> {
    header: Header<'a>,
    sections: Vec<SectionTable, A>,
}

/// What is read of the imports.
#[derive(Clone, Copy)]
pub(crate) struct Wanted {
    /// How many there may be at most; any number without a limit.
    pub most: Option<u32>,
    /// Whether the names of the DLLs are listed.
    pub libraries: bool,
    /// Whether the imports are listed; else they are tested alone.
    pub imports: bool,
}

/// The section headers of an image.
fn sections<A: Allocator + Copy + Drop>(
    alloc: A,
    bytes: &[u8],
    header: &Header<'_>,
) -> Result<Vec<SectionTable, A>>
    ensures sections { ReturnsUnlessMemoryAfter (sections_of bytes.now (header_view header.now))
        (λ v. v.items) result (sections_of bytes.now (header_view header.now)) }
    ensures memory { MemoryOnlyIf
        (0 < (header_view header.now).coff_header.number_of_sections) result }
{
    // Memory is asked for only if there are sections.
    if header.coff_header.number_of_sections == 0 {
        return Ok(Vec::new(alloc));
    }
    header.sections(alloc, bytes)
}

/// The export directory. `None` without one, or if it is invalid.
fn export_data<'a>(
    bytes: &'a [u8],
    opts: &ParseOptions,
    sections: &[SectionTable],
    layout: &Layout,
) -> Option<ExportData<'a>>
    ensures { option_map export_data_view result ≡ export_data_of (section_map
        opts.now sections.now layout.now.file_alignment) bytes.entry.now layout.now.exports }
{
    let alignment = layout.file_alignment;
    ExportData::parse_with_opts(bytes, layout.exports?, sections, alignment, opts).ok()
}

/// The data directory of the imports. `None` if `parse_imports` is off.
fn import_directory_in(opts: &ParseOptions, layout: &Layout) -> Option<DataDirectory>
    ensures { result ≡ import_directory_in opts.now layout.now }
{
    if opts.parse_imports {
        layout.imports
    } else {
        None
    }
}

/// The index of the sections, by which exports and imports are read. `None` if there are neither, so that no memory is
/// asked for.
fn index<'s, A: Allocator + Copy>(
    alloc: A,
    opts: &ParseOptions,
    sections: &'s [SectionTable],
    layout: &Layout,
    export_data: &Option<ExportData<'_>>,
) -> Result<Option<SectionIndex<'s, A>>>
    ensures index { IfOk result (λ found. IfSome found
        (λ index. index ≡ map_view opts.now sections.entry.now layout.now.file_alignment)) }
    ensures refused { IfErr result (λ error. error ≡ Memory record {}) }
    ensures memory { MemoryOnlyIf (IsSome (option_map export_data_view export_data.now)
        ⊎ IsSomeAnd (import_directory_in opts.now layout.now) (λ d. IsSome
        (section_map opts.now sections.entry.now layout.now.file_alignment d.virtual_address)))
        result }
{
    let alignment = layout.file_alignment;
    if export_data.is_none() {
        let Some(imports) = import_directory_in(opts, layout) else {
            return Ok(None);
        };
        let rva = imports.virtual_address as usize;
        if find_offset(rva, sections, alignment, opts).is_none() {
            return Ok(None);
        }
    }
    Ok(Some(SectionIndex::new(alloc, sections, alignment, opts)?))
}

/// The section map, by this index if there is one.
fn map_by<'s, A: Allocator>(
    index: &'s Option<SectionIndex<'s, A>>,
    opts: &ParseOptions,
    sections: &'s [SectionTable],
    file_alignment: u32,
) -> SectionMap<'s>
    requires { IfSome index.now
        (λ index. index ≡ map_view opts.now sections.now file_alignment) }
    ensures { result ≡ map_view opts.now sections.entry.now file_alignment }
{
    match index {
        Some(index) => index.map(),
        None => SectionMap::new(sections, file_alignment, opts),
    }
}

/// The exports of the export directory, if there is one.
fn exports<'a, A: Allocator + Copy + Drop>(
    alloc: A,
    image: &MappedBytes<'a, '_>,
    export_data: &Option<ExportData<'a>>,
) -> Result<Vec<Export<'a>, A>>
    ensures exports { ReturnsUnlessMemory (λ v. map export_view v.items) result
        (Ok (exports_of (offset_in image.now.map) image.now.bytes.now
        (option_map export_data_view export_data.now))) }
    ensures memory { MemoryOnlyIf (IsSome (option_map export_data_view export_data.now)) result }
{
    match export_data {
        None => Ok(Vec::new(alloc)),
        Some(data) => Export::parse_with_map(alloc, image, data),
    }
}

/// The import directory. `None` without one, or if `parse_imports` is off.
fn import_data<'a, A: Allocator + Copy + Drop>(
    alloc: A,
    image: &MappedBytes<'a, '_>,
    opts: &ParseOptions,
    layout: &Layout,
) -> Result<Option<ImportData<'a, A>>>
    ensures directory { ReturnsUnlessMemory (option_map import_data_view) result (import_data_of
        (offset_in image.now.map) (entry_size layout.now.is_64) image.now.bytes.now
        (import_directory_in opts.now layout.now)) }
    ensures memory { MemoryOnlyIf
        (IsSomeAnd (import_directory_in opts.now layout.now)
        (λ d. IsSome (offset_in image.now.map d.virtual_address))) result }
{
    let Some(directory) = import_directory_in(opts, layout) else {
        return Ok(None);
    };
    let data = ImportData::parse_with_map(alloc, image, directory, layout.is_64)?;
    Ok(Some(data))
}

/// None of the imports, or the first error among them. Records may share their lookup entries, so they may be more than fit in
/// memory: then those are left out that records before have too.
fn no_imports<'a, A: Allocator + Copy + Drop>(
    alloc: A,
    image: &MappedBytes<'a, '_>,
    data: &ImportData<'a, A>,
    is_64: bool,
) -> Result<Vec<Import<'a>, A>>
    requires { AllStand (offset_in image.now.map) (entry_size is_64)
        image.now.bytes.now (import_data_view data.now) }
    ensures { ReturnsUnlessMemory (λ v. map import_view v.items) result (tested
        (offset_in image.now.map) (entry_size is_64) image.now.bytes.now (import_data_view data.now)) }
{
    // Lists that share no entry have no more than the file has room for.
    if data.import_count(is_64) <= image.bytes.len() / lookup_size(is_64) {
        Import::parse_with_map(alloc, image, data, is_64)?;
    } else {
        let left = without_shared_entries(alloc, image, data, is_64)?;
        Import::parse_with_map(alloc, image, &left, is_64)?;
    }
    Ok(Vec::new(alloc))
}

/// The imports of the import directory, if there is one; none where they are not listed, unless there is an error among them.
fn imports<'a, A: Allocator + Copy + Drop>(
    alloc: A,
    image: &MappedBytes<'a, '_>,
    import_data: &Option<ImportData<'a, A>>,
    is_64: bool,
    listed: bool,
) -> Result<Vec<Import<'a>, A>>
    requires { IfSome (option_map import_data_view import_data.now)
        (AllStand (offset_in image.now.map) (entry_size is_64) image.now.bytes.now) }
    ensures imports { ReturnsUnlessMemory (λ v. map import_view v.items) result
        (if_listed listed (imports_of (offset_in image.now.map) (entry_size is_64)
        image.now.bytes.now (option_map import_data_view import_data.now))) }
    ensures memory { MemoryOnlyIf (IsSome (option_map import_data_view import_data.now)) result }
{
    let Some(data) = import_data else {
        return Ok(Vec::new(alloc));
    };
    if listed {
        Import::parse_with_map(alloc, image, data, is_64)
    } else {
        no_imports(alloc, image, data, is_64)
    }
}

/// Tests how many imports the import directory has. Error: `ImportsLimit` if there is a limit and they are more.
#[tactic(auto, using(crate::proofs::Limited::above_greatest))]
fn require_within<A: Allocator + Copy + Drop>(
    import_data: &Option<ImportData<'_, A>>,
    is_64: bool,
    most: Option<u32>,
) -> Result<()>
    ensures { Returns result (unless_above most
        (entry_count (entry_size is_64) (option_map import_data_view import_data.now)) (Ok tt)) }
{
    let Some(limit) = most else {
        return Ok(());
    };
    let count = match import_data {
        None => 0,
        Some(data) => data.import_count(is_64),
    };
    if count > limit as usize {
        return Err(Error::Malformed(Reason::ImportsLimit { count, limit }));
    }
    Ok(())
}

/// The names of the DLLs in the import directory, if there is one: sorted by their bytes, each once.
fn libraries<'a, A: Allocator + Copy + Drop>(
    alloc: A,
    image: &MappedBytes<'a, '_>,
    opts: &ParseOptions,
    layout: &Layout,
    import_data: &Option<ImportData<'a, A>>,
) -> Result<Vec<&'a str, A>>
    requires { import_data_of (offset_in image.now.map) (entry_size layout.now.is_64)
        image.now.bytes.now (import_directory_in opts.now layout.now)
        ≡ Ok (option_map import_data_view import_data.now) }
    ensures listed { IfOk result (λ v.
        AreLibrariesOf (option_map import_data_view import_data.now) (map (λ s. s.now) v.items)) }
    ensures refused { IfErr result (λ error. error ≡ Memory record {}) }
    ensures memory { MemoryOnlyIf (IsSome (option_map import_data_view import_data.now)) result }
{
    let Some(data) = import_data else {
        return Ok(Vec::new(alloc));
    };
    // By the map: names at one offset are compared once.
    names_of_records_are_read_again();
    data.libraries_with_map(alloc, image)
}

/// What the import directory says. Without one all of it is empty.
#[derive(Drop)]
struct Imported<'a, A: Allocator + Copy + Drop> {
    data: Option<ImportData<'a, A>>,
    imports: Vec<Import<'a>, A>,
    libraries: Vec<&'a str, A>,
}

impl<'a, A: Allocator + Copy + Drop> Imported<'a, A> {
    /// Reads what the import directory says; without its imports and the names of the DLLs where they are not wanted. Errors:
    /// those of the directory; `ImportsLimit` if there is a limit and it has more imports; those of its imports; `Memory`.
    #[tactic(auto, using(crate::proofs::Limited::tested_first, crate::proofs::Requests::asks_for_imports, crate::proofs::StandingLists::all_stand), unfolding(crate::specs::LimitSteps::imported_of))]
    fn read(
        alloc: A,
        image: &MappedBytes<'a, '_>,
        opts: &ParseOptions,
        layout: &Layout,
        wanted: Wanted,
    ) -> Result<Imported<'a, A>>
        ensures imported { ReturnsUnlessMemory imported_view result (imported_of wanted.imports wanted.most
            (offset_in image.now.map) (entry_size layout.now.is_64) image.now.bytes.now
            (import_directory_in opts.now layout.now)) }
        ensures libraries { IfOk result (λ imported. wanted.libraries ≡ true → AreLibrariesOf
            (option_map import_data_view imported.data) (map (λ s. s.now) imported.libraries.items)) }
        ensures none { IfOk result (λ imported. wanted.libraries ≡ false → imported.libraries.items ≡ []) }
        ensures memory { MemoryOnlyIf
            (IsSomeAnd (import_directory_in opts.now layout.now)
            (λ d. IsSome (offset_in image.now.map d.virtual_address))) result }
    {
        let data = import_data(alloc, image, opts, layout)?;
        require_within(&data, layout.is_64, wanted.most)?;
        let imports = imports(alloc, image, &data, layout.is_64, wanted.imports)?;
        let libraries = if wanted.libraries {
            libraries(alloc, image, opts, layout, &data)?
        } else {
            Vec::new(alloc)
        };
        Ok(Imported {
            data,
            imports,
            libraries,
        })
    }
}

impl<'a, A: Allocator + Copy + Drop> Core<'a, A> {
    /// Reads the core of an image with these headers and sections. Errors: those of the import directory; `ImportsLimit`
    /// if there is a limit and it has more imports; those of its imports; `Memory`.
    #[tactic(auto, using(crate::proofs::Limited::limited_core, crate::proofs::Requests::asks_for_index, crate::proofs::Requests::asks_for_exports, crate::proofs::Requests::asks_for_directory), unfolding(crate::specs::LayoutParts::layout_of))]
    fn with(
        alloc: A,
        bytes: &'a [u8],
        opts: &ParseOptions,
        headers: Headers<'a, A>,
        wanted: Wanted,
    ) -> Result<Core<'a, A>>
        ensures core { ReturnsUnlessMemory core_view result (core_if_listed wanted.imports
            (unless_above wanted.most (number_or_0 (imports_with bytes.entry.now opts.now
            (header_view headers.entry.header).optional_header headers.entry.sections.items))
            (core_with bytes.entry.now opts.now
            (header_view headers.entry.header) headers.entry.sections.items))) }
        ensures memory { MemoryOnlyIf
            (HasExports bytes.entry.now opts.now headers.entry.sections.items
            (header_view headers.entry.header).optional_header
            ⊎ HasImports opts.now headers.entry.sections.items
            (header_view headers.entry.header).optional_header) result }
        ensures libraries { IfOk result (λ core. wanted.libraries ≡ true → CoreHasLibraries core) }
        ensures none { IfOk result (λ core. wanted.libraries ≡ false → core.libraries.items ≡ []) }
        ensures layout { IfOk result CoreHasLayout }
    {
        let Headers { header, sections } = headers;
        let layout = Layout::of(&header.optional_header);
        let export_data = export_data(bytes, opts, &sections, &layout);
        // One index for all: making it costs more than most searches by it.
        let index = index(alloc, opts, &sections, &layout, &export_data)?;
        let image = MappedBytes {
            bytes,
            map: map_by(&index, opts, &sections, layout.file_alignment),
        };
        let exports = exports(alloc, &image, &export_data)?;
        let imported = Imported::read(alloc, &image, opts, &layout, wanted)?;
        // They borrow the sections, which the core takes.
        drop(image);
        drop(index);
        Ok(Core {
            header,
            sections,
            export_data,
            exports,
            import_data: imported.data,
            imports: imported.imports,
            libraries: imported.libraries,
            layout,
        })
    }

    /// Reads the core of an image. The first error is returned, in this order: of the headers, the section headers, the
    /// import directory, the imports. Memory is asked for only if the headers and the section headers are valid.
    pub fn read(alloc: A, bytes: &'a [u8], opts: &ParseOptions) -> Result<Core<'a, A>>
        ensures core { ReturnsUnlessMemoryAfter (sections_read bytes.entry.now opts.now)
            core_view result (core_of bytes.entry.now opts.now) }
        ensures memory { MemoryOnlyIf (AsksForMemory bytes.entry.now opts.now) result }
        ensures libraries { IfOk result CoreHasLibraries }
        ensures layout { IfOk result CoreHasLayout }
    {
        let wanted = Wanted {
            most: None,
            libraries: true,
            imports: true,
        };
        Core::read_within(alloc, bytes, opts, wanted)
    }

    /// Reads the core of an image, as `read` does, but for the names of the DLLs, which stay empty.
    pub fn read_unlisted(alloc: A, bytes: &'a [u8], opts: &ParseOptions) -> Result<Core<'a, A>>
        ensures core { ReturnsUnlessMemoryAfter (sections_read bytes.entry.now opts.now)
            core_view result (core_of bytes.entry.now opts.now) }
        ensures memory { MemoryOnlyIf (AsksForMemory bytes.entry.now opts.now) result }
        ensures none { IfOk result (λ core. core.libraries.items ≡ []) }
        ensures layout { IfOk result CoreHasLayout }
    {
        let wanted = Wanted {
            most: None,
            libraries: false,
            imports: true,
        };
        Core::read_within(alloc, bytes, opts, wanted)
    }

    /// Reads the core of an image, as `read` does, unless there is a limit and it has more imports; without its imports and the
    /// names of the DLLs where they are not wanted. `ImportsLimit` comes after the errors of the import directory, and before those of its imports.
    #[tactic(auto, using(crate::proofs::NoMemory::header_owes_nothing, crate::proofs::Requests::asks_for_sections, crate::proofs::Requests::asks_for_core), unfolding(crate::specs::Core::core_of, crate::specs::Limits::import_count))]
    pub fn read_within(
        alloc: A,
        bytes: &'a [u8],
        opts: &ParseOptions,
        wanted: Wanted,
    ) -> Result<Core<'a, A>>
        ensures core { ReturnsUnlessMemoryAfter (sections_read bytes.entry.now opts.now)
            core_view result (core_if_listed wanted.imports
            (unless_above wanted.most (import_count bytes.entry.now opts.now)
            (core_of bytes.entry.now opts.now))) }
        ensures memory { MemoryOnlyIf (AsksForMemory bytes.entry.now opts.now) result }
        ensures libraries { IfOk result (λ core. wanted.libraries ≡ true → CoreHasLibraries core) }
        ensures none { IfOk result (λ core. wanted.libraries ≡ false → core.libraries.items ≡ []) }
        ensures layout { IfOk result CoreHasLayout }
    {
        let header = Header::parse_with_opts(bytes, opts)?;
        let sections = sections(alloc, bytes, &header)?;
        Core::with(alloc, bytes, opts, Headers { header, sections }, wanted)
    }
}
