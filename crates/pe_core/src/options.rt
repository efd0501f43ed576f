//! The options of the readers: how RVAs are mapped, which tables are read, and what a damaged one does to the image.

use crate::error::{Error, Result};

/// What becomes of an image with a damaged directory.
#[derive(Clone, Copy, Debug, PartialEq)]
pub enum ParseMode {
    /// The error of the directory is the error of the image.
    Strict,
    /// The directory is left empty.
    Permissive,
}

impl ParseMode {
    ghost use Rattle.std.specs.Prelude.{◌≡◌};
    ghost use Rattle.pe_core.specs.Modes.{none_if_error};

    /// The directory as this mode takes it: an error is returned in strict mode, and is `None` in permissive mode.
    /// `Memory` is returned in both modes.
    pub fn none_if_refused<T>(self, parsed: Result<T>) -> Result<Option<T>>
        ensures { result ≡ none_if_error self parsed }
    {
        match parsed {
            Ok(value) => Ok(Some(value)),
            // An allocation failure says nothing about the directory, so it never empties one.
            Err(Error::Memory(error)) => Err(Error::Memory(error)),
            Err(refusal) => match self {
                ParseMode::Strict => Err(refusal),
                ParseMode::Permissive => Ok(None),
            },
        }
    }
}

/// What is read of an image, and how.
#[derive(Clone, Copy, Debug, PartialEq)]
pub struct ParseOptions {
    /// Whether RVAs are mapped to file offsets by the sections. If not, an RVA is its own offset, as in an image that
    /// is already loaded.
    pub resolve_rva: bool,
    /// Whether the attribute certificates are read.
    pub parse_attribute_certificates: bool,
    /// Whether the imports are read.
    pub parse_imports: bool,
    /// Whether the resources are read.
    pub parse_resources: bool,
    /// What becomes of the image if a directory is damaged.
    pub parse_mode: ParseMode,
}

impl ParseOptions {
    ghost use Rattle.std.specs.Prelude.{◌≡◌};
    ghost use Rattle.pe_core.specs.Options.{te_options};

    /// The options for TE images: all off, strict.
    pub fn te() -> ParseOptions
        ensures { result ≡ te_options }
    {
        ParseOptions {
            resolve_rva: false,
            parse_attribute_certificates: false,
            parse_imports: false,
            parse_resources: false,
            parse_mode: ParseMode::Strict,
        }
    }

    /// The same options with this mode.
    pub fn with_parse_mode(self, parse_mode: ParseMode) -> ParseOptions
        ensures { result ≡ record self { parse_mode = parse_mode } }
    {
        ParseOptions { parse_mode, ..self }
    }
}

impl Default for ParseOptions {
    ghost use Rattle.std.specs.Prelude.{◌≡◌};
    ghost use Rattle.pe_core.specs.Options.{default_options};

    ghost is_default = { λ o. o ≡ default_options };

    /// All on, strict.
    fn default() -> ParseOptions {
        ParseOptions {
            resolve_rva: true,
            parse_attribute_certificates: true,
            parse_imports: true,
            parse_resources: true,
            parse_mode: ParseMode::Strict,
        }
    }
}
