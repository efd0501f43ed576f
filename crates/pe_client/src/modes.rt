//! What both modes read of an image.

ghost use Rattle.std.specs.Prelude.{◌≡◌, IfOk, Ok, map};
ghost use Rattle.std.specs.Option.{option_map};
ghost use Rattle.pe_core.specs.Options.{default_options};
ghost use Rattle.pe_core.specs.declared.options.ParseMode.{ParseMode};
ghost use Rattle.pe_core.specs.declared.options.ParseOptions.{ParseOptions};
ghost use Rattle.pe_records.specs.DebugRecords.{debug_view};
ghost use Rattle.pe_image.specs.Core.{CoreView, core_of};
ghost use Rattle.pe_image.specs.Fields.{given_value};
ghost use Rattle.pe_image.specs.Image.{debug_of};

use pe_image::{DebugData, PE, ParseMode, ParseOptions, Result};
use std::alloc::Global;

/// The options of a permissive reader.
fn permissive() -> ParseOptions
    ensures { result ≡ record default_options { parse_mode = ParseMode.Permissive } }
{
    ParseOptions::default().with_parse_mode(ParseMode::Permissive)
}

/// The debug data of an image, read permissively: what their own definition says, and nothing where that is absent or
/// refused, whatever else is damaged. It follows from the law `headline`.
pub fn debug_data<'a>(alloc: Global, bytes: &'a [u8]) -> Result<Option<DebugData<'a>>>
    ensures { (c : CoreView) → core_of bytes.entry.now
        (record default_options { parse_mode = ParseMode.Permissive }) ≡ Ok c →
        IfOk result (λ d. option_map debug_view d ≡ given_value (debug_of bytes.entry.now
        (record default_options { parse_mode = ParseMode.Permissive }) c)) }
{
    pe_image::laws::headline();
    let image = PE::parse_with_opts(alloc, bytes, &permissive())?;
    Ok(image.debug_data)
}

/// The debug data of an image that strict mode accepts, as both modes read it: they are the same.
pub fn debug_data_of_both_modes<'a>(
    alloc: Global,
    bytes: &'a [u8],
) -> Result<(Option<DebugData<'a>>, Option<DebugData<'a>>)>
    ensures { IfOk result (λ d. option_map debug_view d.0 ≡ option_map debug_view d.1) }
{
    pe_image::laws::strict_images_are_permissive();
    pe_image::laws::images_are_one();
    let strict = PE::parse(alloc, bytes)?;
    let lenient = PE::parse_with_opts(alloc, bytes, &permissive())?;
    Ok((strict.debug_data, lenient.debug_data))
}

/// The libraries of an image that strict mode accepts, as both modes read them: they are the same.
pub fn libraries_of_both_modes<'a>(
    alloc: Global,
    bytes: &'a [u8],
) -> Result<(Vec<&'a str>, Vec<&'a str>)>
    ensures { IfOk result (λ l. map (λ s. s.now) l.0.items ≡ map (λ s. s.now) l.1.items) }
{
    pe_image::laws::strict_images_are_permissive();
    pe_image::laws::images_are_one();
    pe_image::laws::equal_images_have_equal_libraries::<Global, Global>();
    let strict = PE::parse(alloc, bytes)?;
    let lenient = PE::parse_with_opts(alloc, bytes, &permissive())?;
    Ok((strict.libraries, lenient.libraries))
}
