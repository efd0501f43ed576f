//! The directories of an image that this crate reads, in one call. Each is read for itself, as `PE::parse` of pe_image does in
//! permissive mode: a damaged directory costs itself and no other.

ghost use Rattle.std.specs.Prelude.{◌≡◌, true};
ghost use Rattle.pe_core.specs.Directories.{kept_rows, present};
ghost use Rattle.pe_directories.specs.BaseRelocations.{blocks_left};
ghost use Rattle.pe_directories.specs.Chosen.{AreDirectories, FieldIs, of_directory};
ghost use Rattle.pe_directories.specs.Clr.{clr_header};
ghost use Rattle.pe_directories.specs.DelayImports.{delay_imports_left};
ghost use Rattle.pe_directories.specs.ImageParts.{image_view, walk_table};
ghost use Rattle.pe_directories.specs.LoadConfig.{load_config};
ghost use Rattle.pe_directories.specs.Tls.{tls_directory};

use crate::base_relocation::RelocationBlocks;
use crate::clr::ClrHeader;
use crate::delay_import::DelayImports;
use crate::error::Result;
use crate::image_bytes::ImageBytes;
use crate::load_config::LoadConfig;
use crate::tls::TlsDirectory;
use pe_core::DataDirectories;

/// Which directories are read.
#[derive(Clone, Copy)]
pub struct ChosenDirectories {
    /// Base relocations, directory 5.
    pub base_relocations: bool,
    /// Thread-local storage, directory 9.
    pub tls: bool,
    /// The load configuration, directory 10.
    pub load_config: bool,
    /// Delay imports, directory 13.
    pub delay_imports: bool,
    /// The CLR header, directory 14.
    pub clr_header: bool,
}

impl ChosenDirectories {
    /// All of them.
    pub fn all() -> ChosenDirectories
        ensures { result ≡ record {
          base_relocations = true;
          tls = true;
          load_config = true;
          delay_imports = true;
          clr_header = true;
        } }
    {
        ChosenDirectories {
            base_relocations: true,
            tls: true,
            load_config: true,
            delay_imports: true,
            clr_header: true,
        }
    }
}

/// Directories of an image. A field is `None` where its directory is not chosen or absent, and has the error of one that is
/// damaged.
#[derive(Drop)]
pub struct Directories<'a> {
    /// Base relocations: the error of the directory alone, not those of its blocks.
    pub base_relocations: Option<Result<RelocationBlocks<'a>>>,
    /// Thread-local storage.
    pub tls: Option<Result<TlsDirectory>>,
    /// The load configuration.
    pub load_config: Option<Result<LoadConfig>>,
    /// Delay imports: the error of the directory alone, not those of its entries.
    pub delay_imports: Option<Result<DelayImports<'a>>>,
    /// The CLR header.
    pub clr_header: Option<Result<ClrHeader>>,
}

impl<'a> Directories<'a> {
    /// The chosen directories of an image, whose optional header has these entries.
    pub fn parse(
        image: &ImageBytes<'a>,
        entries: &DataDirectories,
        chosen: ChosenDirectories,
    ) -> Directories<'a>
        ensures { AreDirectories (image_view image.now) (kept_rows entries.now) chosen result }
    {
        Directories {
            base_relocations: base_relocations(image, entries, chosen),
            tls: tls(image, entries, chosen),
            load_config: load_config(image, entries, chosen),
            delay_imports: delay_imports(image, entries, chosen),
            clr_header: clr_header(image, entries, chosen),
        }
    }
}

/// The base relocations, if they are chosen and present.
fn base_relocations<'a>(
    image: &ImageBytes<'a>,
    entries: &DataDirectories,
    chosen: ChosenDirectories,
) -> Option<Result<RelocationBlocks<'a>>>
    ensures { FieldIs blocks_left result (of_directory chosen.base_relocations
        (present (kept_rows entries.now) 5) (walk_table (image_view image.now))) }
{
    if !chosen.base_relocations {
        return None;
    }
    let directory = entries.get_base_relocation_table()?;
    Some(RelocationBlocks::parse(image, directory))
}

/// The TLS directory, if it is chosen and present.
fn tls(
    image: &ImageBytes<'_>,
    entries: &DataDirectories,
    chosen: ChosenDirectories,
) -> Option<Result<TlsDirectory>>
    ensures { FieldIs (λ t. t) result (of_directory chosen.tls
        (present (kept_rows entries.now) 9) (tls_directory (image_view image.now))) }
{
    if !chosen.tls {
        return None;
    }
    let directory = entries.get_tls_table()?;
    Some(TlsDirectory::parse(image, directory))
}

/// The load configuration, if it is chosen and present.
fn load_config(
    image: &ImageBytes<'_>,
    entries: &DataDirectories,
    chosen: ChosenDirectories,
) -> Option<Result<LoadConfig>>
    ensures { FieldIs (λ l. l) result (of_directory chosen.load_config
        (present (kept_rows entries.now) 10) (load_config (image_view image.now))) }
{
    if !chosen.load_config {
        return None;
    }
    let directory = entries.get_load_config_table()?;
    Some(LoadConfig::parse(image, directory))
}

/// The delay imports, if they are chosen and present.
fn delay_imports<'a>(
    image: &ImageBytes<'a>,
    entries: &DataDirectories,
    chosen: ChosenDirectories,
) -> Option<Result<DelayImports<'a>>>
    ensures { FieldIs delay_imports_left result (of_directory chosen.delay_imports
        (present (kept_rows entries.now) 13) (walk_table (image_view image.now))) }
{
    if !chosen.delay_imports {
        return None;
    }
    let directory = entries.get_delay_import_descriptor()?;
    Some(DelayImports::parse(image, directory))
}

/// The CLR header, if it is chosen and present.
fn clr_header(
    image: &ImageBytes<'_>,
    entries: &DataDirectories,
    chosen: ChosenDirectories,
) -> Option<Result<ClrHeader>>
    ensures { FieldIs (λ h. h) result (of_directory chosen.clr_header
        (present (kept_rows entries.now) 14) (clr_header (image_view image.now))) }
{
    if !chosen.clr_header {
        return None;
    }
    let directory = entries.get_clr_runtime_header()?;
    Some(ClrHeader::parse(image, directory))
}
