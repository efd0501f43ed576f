//! The results of calls as numbers, in groups: 0; from 1 on the errors of pe_core; from 100 on those that this crate alone has
//! and those of a step of a stack walk; from 201 on errors of signing, from 301 on those of further directories, from 401 on
//! those of the resource tree, from 451 on those of resources that are written, from 501 on those of signatures, from 551 on those
//! of minidumps. Callers may store them: the numbers stay the same from version to version.

ghost use Rattle.std.specs.Prelude.{◌≡◌};
ghost use Rattle.pe_core.specs.Refusals.{kind_of, kind_of_reason, answer_of};
ghost use Rattle.calls_base.specs.DirectoryResults.{DirectoryHandsOut, directory_number};
ghost use Rattle.calls_base.specs.HandsOut.{result_number, HandsOut, HandsOutIf};
ghost use Rattle.calls_base.specs.Modes.{options_of};
ghost use Rattle.calls_base.specs.TreeResults.{tree_number};
ghost use Rattle.calls_base.specs.SignResults.{sign_number};
ghost use Rattle.calls_base.specs.WrittenFiles.{HandsOutLength};
ghost use Rattle.pe_directories.specs.DirectoryRefusals.{directory_answer, directory_kind_of};
ghost use Rattle.pe_resource.specs.Leaves.{tree_kind_of};
ghost use Rattle.pe_sign.specs.SignRefusals.{sign_kind_of};

use pe_core::{Error, ParseMode, ParseOptions, Reason, Result};
use pe_directories::DirectoryError;
use pe_resource::ResourceTreeError;
use pe_sign::SignError;

/// The call succeeded.
pub const DONE: u32 = 0;

/// There is nothing of the kind that was asked for, or a walk is over. It is no error.
pub const NOTHING: u32 = 100;

/// The array that the caller passes is too small.
pub const ROOM: u32 = 101;

// Of steps of a stack walk, which read no more of the image: the errors of pe_frame, and one of their own.

/// Eight bytes of memory are not in the piece that the caller passes.
pub const MISSING: u32 = 102;

/// An address from which an unwind code counts: its sum passes 2^64, or the frame register lies below its offset.
pub const BAD_ADDRESS: u32 = 103;

/// An unwind operation that no step undoes.
pub const BAD_OPERATION: u32 = 104;

/// The stack pointer of the caller is not above that of the function.
pub const NOT_RISING: u32 = 105;

/// More records are chained than a step takes.
pub const LONG_CHAIN: u32 = 106;

/// Pieces of memory overlap or do not ascend, where runs are wanted.
pub const OUT_OF_ORDER: u32 = 107;

/// What is written does not fit its buffer: the number of `Reason::WriteFit`.
pub const WRITE_FIT: u32 = 37;

/// The number of a reason. `tools/make_errors` writes the arms.
fn number_of_reason(reason: Reason) -> u32
    ensures { result ≡ result_number (kind_of_reason reason) }
{
    match reason {
        Reason::HeaderPointer(_) => 4,
        Reason::ImportName(_) => 5,
        Reason::StringTable(_) => 6,
        Reason::CertificateRevision(_) => 7,
        Reason::CertificateType(_) => 8,
        Reason::CertificateSize(_) => 9,
        Reason::CertificateTable(_) => 10,
        Reason::Unmapped(_) => 11,
        Reason::DebugBounds(_) => 12,
        Reason::DebugSize(_) => 13,
        Reason::DebugData(_) => 14,
        Reason::PogoSize(_) => 15,
        Reason::PogoName { .. } => 16,
        Reason::ExceptionSize(_) => 17,
        Reason::ExceptionOffset(_) => 18,
        Reason::ExceptionBounds(_) => 19,
        Reason::FunctionIndex(_) => 20,
        Reason::FunctionLink(_) => 21,
        Reason::FunctionCycle(_) => 22,
        Reason::UnwindVersion(_) => 23,
        Reason::UnwindCode(_) => 24,
        Reason::Arm64Version(_) => 25,
        Reason::Arm64Stream { .. } => 26,
        Reason::Arm64Cut(_) => 27,
        Reason::ResourceBounds(_) => 28,
        Reason::ResourceCycle(_) => 29,
        Reason::ResourceString(_) => 30,
        Reason::TeSize(_) => 31,
        Reason::NoOptionalHeader => 32,
        Reason::WriteAlignment(_) => 33,
        Reason::WriteSymbols(_) => 34,
        Reason::WriteOverlap(..) => 35,
        Reason::WriteSection(_) => 36,
        Reason::WriteFit { .. } => 37,
        Reason::ImportsLimit { .. } => 38,
    }
}

/// The number of an error. It stays the same from version to version.
pub fn number_of(error: &Error) -> u32
    ensures { result ≡ result_number (kind_of error.now) }
{
    match error {
        Error::Memory(_) => 1,
        Error::Short { .. } => 2,
        Error::BadMagic(_) => 3,
        Error::Malformed(reason) => number_of_reason(*reason),
    }
}

/// The number of an error of signing. It stays the same from version to version. `tools/make_errors` writes the arms.
pub fn number_of_signing(error: &SignError) -> u32
    ensures { result ≡ sign_number (sign_kind_of error.now) }
{
    match error {
        SignError::Image(error) => number_of(error),
        SignError::NoDirectory(_) => 201,
        SignError::TableNotLast(_) => 202,
        SignError::Headers(_) => 203,
        SignError::Section(_) => 204,
        SignError::TableOffset(_) => 205,
        SignError::TooLarge => 206,
    }
}

/// The number of an error of a directory. It stays the same from version to version. `tools/make_errors` writes the arms.
pub fn number_of_directory(error: &DirectoryError) -> u32
    ensures { result ≡ directory_number (directory_kind_of error.now) }
{
    match error {
        DirectoryError::Image(error) => number_of(error),
        DirectoryError::BlockSize(_) => 301,
        DirectoryError::BlockTruncated { .. } => 302,
        DirectoryError::NoArgument(_) => 303,
        DirectoryError::VaBelowBase(_) => 304,
        DirectoryError::ClrHeaderSize(_) => 305,
        DirectoryError::StreamName => 306,
        DirectoryError::DelayImportName(_) => 307,
        DirectoryError::BoundImportName(_) => 308,
        DirectoryError::RelocationKind { .. } => 309,
        DirectoryError::RelocationOutside(_) => 310,
    }
}

/// The number of an error of a resource tree. It stays the same from version to version. `tools/make_errors` writes the arms.
pub fn number_of_tree(error: &ResourceTreeError) -> u32
    ensures { result ≡ tree_number (tree_kind_of error.now) }
{
    match error {
        ResourceTreeError::Image(error) => number_of(error),
        ResourceTreeError::NotDirectory(_) => 401,
        ResourceTreeError::NotData(_) => 402,
        ResourceTreeError::NoEntries(_) => 403,
    }
}

/// The options of a mode: bit 0 is permissive mode, bit 1 an image as loaded, whose RVAs are its offsets.
pub fn options(mode: u32) -> ParseOptions
    ensures { result ≡ options_of mode }
{
    let parse_mode = if mode % 2 == 0 {
        ParseMode::Strict
    } else {
        ParseMode::Permissive
    };
    ParseOptions {
        resolve_rva: mode / 2 % 2 == 0,
        parse_mode,
        ..ParseOptions::default()
    }
}

/// Writes a value to `out` and returns `DONE`, or returns the number of an error and leaves `out` unchanged.
pub fn hand_out<T: Copy>(given: Result<T>, out: &mut T) -> u32
    ensures { HandsOut result out.old out.new (answer_of given) }
{
    match given {
        Ok(value) => {
            *out = value;
            DONE
        }
        Err(error) => number_of(&error),
    }
}

/// The same of a value that may be absent: then returns `NOTHING` and leaves `out` unchanged.
pub fn hand_out_some<T: Copy>(given: Result<Option<T>>, out: &mut T) -> u32
    ensures { HandsOutIf result out.old out.new (answer_of given) }
{
    match given {
        Ok(Some(value)) => {
            *out = value;
            DONE
        }
        Ok(None) => NOTHING,
        Err(error) => number_of(&error),
    }
}

/// The same of what may be absent, by an error of a directory.
pub fn hand_out_found<T: Copy>(
    given: std::result::Result<Option<T>, DirectoryError>,
    out: &mut T,
) -> u32
    ensures { DirectoryHandsOut result out.old out.new (directory_answer (λ x. x) given) }
{
    match given {
        Ok(Some(value)) => {
            *out = value;
            DONE
        }
        Ok(None) => NOTHING,
        Err(error) => number_of_directory(&error),
    }
}

/// Hands out the length of a file: `DONE` where a room of so many bytes has room for it, `ROOM` where not; or the number of an error,
/// and then `out` is unchanged.
pub fn hand_out_length(given: std::result::Result<u64, u32>, room: usize, out: &mut u64) -> u32
    ensures { HandsOutLength result out.old out.new room given }
{
    match given {
        Ok(length) => {
            *out = length;
            if length <= room as u64 { DONE } else { ROOM }
        }
        Err(number) => number,
    }
}
