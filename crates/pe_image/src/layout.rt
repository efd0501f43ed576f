//! What the headers say about the whole image: PE32 or PE32+, DLL or not, and where its data directories are.
//! Layout: <https://learn.microsoft.com/windows/win32/debug/pe-format>, COFF file header and optional header.

ghost use Rattle.std.specs.Prelude.{◌≡◌, Some, None};
ghost use Rattle.pe_core.specs.Header.{header_view, optional_view};
ghost use Rattle.pe_image.specs.Layout.{is_library};
ghost use Rattle.pe_image.specs.LayoutParts.{layout_of};

use pe_core::{DataDirectory, Header, IMAGE_FILE_DLL, MAGIC_64, OptionalHeader};

/// Whether the image is a DLL: the characteristics have `IMAGE_FILE_DLL`.
pub fn is_library(header: &Header<'_>) -> bool
    ensures { result ≡ is_library (header_view header.now) }
{
    header.coff_header.characteristics / IMAGE_FILE_DLL % 2 == 1
}

/// What the optional header says about the image, and its data directories. Without an optional header there are no
/// directories, `is_64` is false, and the numbers are 0.
#[derive(Clone, Copy)]
pub struct Layout {
    pub is_64: bool,
    /// The RVA of the entry point.
    pub entry: u32,
    /// The preferred virtual address of the loaded image.
    pub image_base: u64,
    /// In bytes.
    pub file_alignment: u32,
    pub exports: Option<DataDirectory>,
    pub imports: Option<DataDirectory>,
    pub resources: Option<DataDirectory>,
    pub exceptions: Option<DataDirectory>,
    pub certificates: Option<DataDirectory>,
    pub relocations: Option<DataDirectory>,
    pub debug: Option<DataDirectory>,
}

impl Layout {
    /// The layout without an optional header.
    #[tactic(auto, unfolding(crate::specs::LayoutParts::layout_of))]
    fn none() -> Layout
        ensures { result ≡ layout_of (optional_view None) }
    {
        Layout {
            is_64: false,
            entry: 0,
            image_base: 0,
            file_alignment: 0,
            exports: None,
            imports: None,
            resources: None,
            exceptions: None,
            certificates: None,
            relocations: None,
            debug: None,
        }
    }

    /// The layout with this optional header.
    #[tactic(auto, unfolding(crate::specs::LayoutParts::layout_of))]
    fn by_header(optional: &OptionalHeader) -> Layout
        ensures { result ≡ layout_of (optional_view (Some optional.now)) }
    {
        let directories = &optional.data_directories;
        Layout {
            is_64: optional.standard_fields.magic == MAGIC_64,
            entry: optional.standard_fields.address_of_entry_point,
            image_base: optional.windows_fields.image_base,
            file_alignment: optional.windows_fields.file_alignment,
            exports: directories.get_export_table(),
            imports: directories.get_import_table(),
            resources: directories.get_resource_table(),
            exceptions: directories.get_exception_table(),
            certificates: directories.get_certificate_table(),
            relocations: directories.get_base_relocation_table(),
            debug: directories.get_debug_table(),
        }
    }

    /// The layout with or without an optional header.
    pub fn of(optional: &Option<OptionalHeader>) -> Layout
        ensures { result ≡ layout_of (optional_view optional.now) }
    {
        match optional {
            None => Layout::none(),
            Some(optional) => Layout::by_header(optional),
        }
    }
}
