//! ARM64 unwind records (`.xdata`): a header word, an extension word if the header has no counts, epilog scopes, words
//! of unwind codes, and the RVA of an exception handler with its data. A caller undoes the codes from index 0 on, or
//! from the index of an epilog. See
//! [ARM64 exception handling](https://learn.microsoft.com/cpp/build/arm64-exception-handling).

ghost use Rattle.std.specs.Prelude.{◌≡◌, ◌+◌, ◌*◌, ◌≤◌, ◌==◌, [], ◌∷◌, ℕ, Option, length, Result};
ghost use Rattle.std.specs.Option.{option_map};
ghost use Rattle.pe_core.specs.Refusals.{Arm64Version, Returns, ReturnsAs, Short, outcome};
ghost use Rattle.pe_core.specs.Bytes.{holds, le, range};
ghost use Rattle.pe_unwind.specs.Arm64Words.{bits, epilog_scopes_left};
ghost use Rattle.pe_unwind.specs.Arm64Record.{extension_view, arm64_handler_view, info_view, extension_size, extension_at, scope_count, code_words, handler_size, handler_at, info_at, parts_at, size_at, scopes_of};
ghost use Rattle.pe_unwind.specs.Arm64Tiling.{stream_offset, stream_at};

use crate::arm64::codes::Arm64UnwindCodeIterator;
use crate::arm64::words::{Arm64EpilogScopeIterator, Arm64UnwindExtension, Arm64UnwindHeader};
use pe_core::{Error, Reason, Result, read_u32, require_bytes, slice_at, u32_at};

/// The size of a word in bytes.
const SIZE_OF_WORD: usize = 4;

/// The exception handler of a function, called when an exception passes through it.
#[derive(Clone, Debug, Drop, PartialEq, Eq)]
pub struct Arm64ExceptionHandler<'a> {
    /// The RVA of the handler.
    pub rva: u32,
    /// The handler's data: all bytes after that RVA in the record, to the end of the file.
    pub bytes: &'a [u8],
}

/// An ARM64 unwind record: how the frame of a function is unwound.
#[derive(Clone, Debug, Drop)]
pub struct Arm64UnwindInfo<'a> {
    /// The header, the first word.
    pub header: Arm64UnwindHeader,
    /// The extension word, if both counts of the header are 0.
    pub extension: Option<Arm64UnwindExtension>,
    /// The exception handler, if there is one.
    pub exception_handler: Option<Arm64ExceptionHandler<'a>>,
    scope_bytes: &'a [u8],
    code_bytes: &'a [u8],
}

/// The header of the record at an offset. Errors, in this order: `Short` if it is truncated; `Arm64Version` unless its
/// version is 0.
fn header_at(bytes: &[u8], offset: usize) -> Result<Arm64UnwindHeader>
    ensures { ReturnsAs (λ header. header.0) result (outcome ((holds bytes.now offset 4, Short)
        ∷ (bits (le bytes.now offset 4) 18 2 == 0, Arm64Version) ∷ []) (le bytes.now offset 4)) }
{
    let header = Arm64UnwindHeader(u32_at(bytes, offset)?);
    if header.version() != 0 {
        return Err(Error::Malformed(Reason::Arm64Version(header.version())));
    }
    Ok(header)
}

/// The extension word after a header, if the header has no counts, and the offset after it. Errors: `Short`.
fn extension_after(
    bytes: &[u8],
    offset: usize,
    header: Arm64UnwindHeader,
) -> Result<(Option<Arm64UnwindExtension>, usize)>
    requires { offset ≤ length bytes.now }
    ensures { ReturnsAs {Y = Option ℕ × ℕ} (λ found. (extension_view found.0, found.1)) result
        (outcome ((holds bytes.now offset (extension_size header.0), Short) ∷ [])
        (extension_at bytes.now offset header.0, offset + extension_size header.0)) }
{
    if header.has_extension() {
        let extension = Arm64UnwindExtension(u32_at(bytes, offset)?);
        Ok((Some(extension), offset + SIZE_OF_WORD))
    } else {
        Ok((None, offset))
    }
}

/// How many epilog scopes follow.
fn count_of_scopes(header: Arm64UnwindHeader, extension: Option<Arm64UnwindExtension>) -> usize
    ensures value { result ≡ scope_count header.0 (extension_view extension) }
    ensures small { result ≤ 65535 }
{
    if header.epilog_in_header() {
        return 0;
    }
    match extension {
        Some(extension) => extension.epilog_count() as usize,
        None => header.epilog_count() as usize,
    }
}

/// How many words of unwind codes follow.
fn count_of_code_words(header: Arm64UnwindHeader, extension: Option<Arm64UnwindExtension>) -> usize
    ensures value { result ≡ code_words header.0 (extension_view extension) }
    ensures small { result ≤ 255 }
{
    match extension {
        Some(extension) => extension.code_words() as usize,
        None => header.code_words() as usize,
    }
}

/// The handler after the codes, if the header says that there is one. Errors: `Short`.
fn handler_after(
    bytes: &[u8],
    offset: usize,
    header: Arm64UnwindHeader,
) -> Result<Option<Arm64ExceptionHandler<'_>>>
    requires { offset ≤ length bytes.now }
    ensures { ReturnsAs (option_map arm64_handler_view) result
        (outcome ((holds bytes.now offset (handler_size header.0), Short) ∷ [])
        (handler_at bytes.now offset header.0)) }
{
    if !header.exception_data_present() {
        return Ok(None);
    }
    require_bytes(bytes, offset, SIZE_OF_WORD)?;
    Ok(Some(Arm64ExceptionHandler {
        rva: read_u32(bytes, offset),
        bytes: bytes.split_at(offset + SIZE_OF_WORD).1,
    }))
}

/// The record with these words, whose scopes, codes and handler follow one another from `offset` on. Errors: `Short` if
/// one of them is truncated.
fn parts_at<'a>(
    bytes: &'a [u8],
    offset: usize,
    header: Arm64UnwindHeader,
    extension: Option<Arm64UnwindExtension>,
) -> Result<Arm64UnwindInfo<'a>>
    requires { offset ≤ length bytes.now }
    ensures { ReturnsAs info_view result
        (parts_at bytes.entry.now offset header.0 (extension_view extension)) }
{
    let scope_bytes = slice_at(
        bytes,
        offset,
        SIZE_OF_WORD * count_of_scopes(header, extension),
    )?;
    let codes = offset + scope_bytes.len();
    let code_bytes = slice_at(
        bytes,
        codes,
        SIZE_OF_WORD * count_of_code_words(header, extension),
    )?;
    let exception_handler = handler_after(bytes, codes + code_bytes.len(), header)?;
    Ok(Arm64UnwindInfo {
        header,
        extension,
        exception_handler,
        scope_bytes,
        code_bytes,
    })
}

impl<'a> Arm64UnwindInfo<'a> {
    /// The record at an offset in the bytes. Its handler's data reach to the end of `bytes`.
    ///
    /// Errors, in this order: `Short` if the header is truncated; `Arm64Version` unless its version is 0; `Short` if
    /// the extension word, the scopes, the codes or the handler's RVA are truncated.
    #[tactic(auto, unfolding(crate::specs::Arm64Record::info_at))]
    pub fn parse(bytes: &'a [u8], offset: usize) -> Result<Arm64UnwindInfo<'a>>
        ensures { ReturnsAs info_view result (info_at bytes.entry.now offset) }
    {
        let header = header_at(bytes, offset)?;
        let (extension, parts) = extension_after(bytes, offset + SIZE_OF_WORD, header)?;
        parts_at(bytes, parts, header, extension)
    }

    /// The size in bytes of the record at the start of these bytes, up to its handler's data. It reads the header and
    /// the extension word alone, so it returns the size of a truncated record too, and of one of any version. Errors:
    /// `Short` if one of these words is truncated.
    #[tactic(auto, unfolding(crate::specs::Arm64Record::size_at))]
    pub fn size(bytes: &[u8]) -> Result<usize>
        ensures { Returns result (size_at bytes.now) }
    {
        let header = Arm64UnwindHeader(u32_at(bytes, 0)?);
        let (extension, _) = extension_after(bytes, SIZE_OF_WORD, header)?;
        let mut words = 1
            + count_of_scopes(header, extension)
            + count_of_code_words(header, extension);
        if extension.is_some() {
            words += 1;
        }
        if header.exception_data_present() {
            words += 1;
        }
        Ok(SIZE_OF_WORD * words)
    }

    /// The epilog scopes. `None` if the header describes the only epilog, or if there are no scopes.
    pub fn epilog_scopes(&self) -> Option<Arm64EpilogScopeIterator<'a>>
        ensures { option_map epilog_scopes_left result ≡ scopes_of (info_view self.now) }
    {
        if self.header.epilog_in_header() || self.scope_bytes.is_empty() {
            return None;
        }
        Some(Arm64EpilogScopeIterator::new(self.scope_bytes))
    }

    /// The bytes of the epilog scopes, four for each. They follow the header and the extension word.
    pub fn scope_bytes(&self) -> &'a [u8]
        ensures { result.now ≡ (info_view self.now).scopes }
    {
        self.scope_bytes
    }

    /// The bytes of the codes. They follow the epilog scopes.
    pub fn code_bytes(&self) -> &'a [u8]
        ensures { result.now ≡ (info_view self.now).codes }
    {
        self.code_bytes
    }

    /// The unwind codes from an index on, in bytes from the first code: 0 for the prolog, or the `start_index` of an
    /// epilog scope. Errors: `Arm64Stream` if the index is past the end of the codes.
    pub fn unwind_codes(&self, start_index: u16) -> Result<Arm64UnwindCodeIterator<'a>>
        ensures { ReturnsAs stream_offset result
            (stream_at (info_view self.now).codes start_index) }
    {
        Arm64UnwindCodeIterator::new(self.code_bytes, usize::from(start_index))
    }
}
