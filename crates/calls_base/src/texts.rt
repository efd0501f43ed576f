//! The texts of the results of calls, for a caller's messages.

ghost use Rattle.std.specs.Prelude.{◌≡◌, ◌≤◌, length};
ghost use Rattle.calls_base.specs.declared.results.TheConstants.{NOTHING};
ghost use Rattle.calls_base.specs.Texts.{refusal_text, other_text, result_text, sign_text, directory_text, tree_text, edit_text, signature_text, dump_text, pdb_text};

use crate::results::{
    BAD_ADDRESS, BAD_OPERATION, LONG_CHAIN, MISSING, NOT_RISING, NOTHING, OUT_OF_ORDER, ROOM,
};

/// The number of the first error of signing.
const SIGNING: u32 = 201;

/// The number of the first error of the directories that pe_directories reads.
const DIRECTORIES: u32 = 301;

/// The number of the first error of resource trees.
const TREES: u32 = 401;

/// The number of the first error of resources that are written.
const EDITS: u32 = 451;

/// The number of the first error of signatures.
const SIGNATURES: u32 = 501;

/// The number of the first error of minidumps.
const DUMPS: u32 = 551;

/// The number of the first error of program databases.
const PDBS: u32 = 601;

/// The text of 0 or of the number of an error. `tools/make_errors` writes the arms.
#[tactic(auto, unfolding(crate::specs::Texts::refusal_text))]
fn refusal_text(number: u32) -> &'static str
    ensures { result.now ≡ refusal_text number }
{
    match number {
        0 => "done",
        1 => "out of memory",
        2 => "truncated",
        3 => "invalid magic number",
        4 => "PE header offset lies inside the DOS header",
        5 => "import name not NUL-terminated or not UTF-8",
        6 => "string table truncated, or string not NUL-terminated or not UTF-8",
        7 => "invalid certificate revision",
        8 => "invalid certificate type",
        9 => "certificate truncated",
        10 => "certificate table ends past the end of the file",
        11 => "RVA maps to no file offset",
        12 => "debug directory ends past the end of the file",
        13 => "debug record too small",
        14 => "debug record truncated",
        15 => "POGO record has no entries",
        16 => "POGO entry truncated",
        17 => "exception directory size is not a multiple of the entry size",
        18 => "exception directory is not aligned to 4 bytes",
        19 => "exception directory ends past the end of the file",
        20 => "function index out of range",
        21 => "link leads to no function entry",
        22 => "loop in unwind links or chained records",
        23 => "unknown unwind record version",
        24 => "invalid unwind code",
        25 => "unknown ARM64 unwind record version",
        26 => "invalid ARM64 unwind code stream",
        27 => "ARM64 unwind code truncated",
        28 => "resource data ends past the bytes that hold it",
        29 => "loop in the resource tree",
        30 => "version string value missing, or its length above 32,767",
        31 => "stripped size smaller than the TE header",
        32 => "image has no optional header",
        33 => "alignment cannot be written",
        34 => "images with COFF symbols cannot be written",
        35 => "sections overlap in the file",
        36 => "section data is not in the source bytes",
        37 => "write does not fit the buffer",
        38 => "image has more imports than the limit",
        _ => "unknown result",
    }
}

/// The text of the number of a result that is no error of pe_core.
#[tactic(auto, using(crate::proofs::LastText::other_text_past), unfolding(crate::specs::Texts::other_text))]
fn other_text(number: u32) -> &'static str
    requires { NOTHING ≤ number }
    ensures { result.now ≡ other_text number }
{
    match number {
        NOTHING => "there is nothing of the kind",
        ROOM => "the array is too small",
        MISSING => "memory is missing",
        BAD_ADDRESS => "address and the offset of an unwind code do not fit 64 bits",
        BAD_OPERATION => "unwind operation cannot be undone",
        NOT_RISING => "stack pointer of the caller is not above that of the function",
        LONG_CHAIN => "more than 32 unwind records are chained",
        OUT_OF_ORDER => "pieces of memory overlap or do not ascend",
        _ => "unknown result",
    }
}

/// The text of an error of signing, by its number from `SIGNING` on. `tools/make_errors` writes the arms.
#[tactic(auto, using(crate::proofs::LastText::sign_text_past), unfolding(crate::specs::Texts::sign_text))]
fn sign_text(number: u32) -> &'static str
    ensures { result.now ≡ sign_text number }
{
    match number {
        0 => "image has no certificate directory",
        1 => "certificate table ends before the end of the file",
        2 => "headers end after the start of the certificates or the end of the file",
        3 => "section data ends after the start of the certificates or the end of the file",
        4 => "certificate table is not aligned to 8 bytes",
        5 => "image with the certificate has 2^32 bytes or more",
        _ => "unknown result",
    }
}

/// The text of an error of a directory, by its number from `DIRECTORIES` on. `tools/make_errors` writes the arms.
#[tactic(auto, unfolding(crate::specs::Texts::directory_text))]
fn directory_text(number: u32) -> &'static str
    ensures { result.now ≡ directory_text number }
{
    match number {
        0 => "base relocation block size below 8 or odd",
        1 => "base relocation block truncated",
        2 => "base relocation has no argument",
        3 => "virtual address below the image base",
        4 => "CLR header smaller than 72 bytes",
        5 => "name of a metadata stream not NUL-terminated",
        6 => "name of a delay import not NUL-terminated or not UTF-8",
        7 => "name of a bound import not NUL-terminated or not UTF-8",
        8 => "base relocation of a type that is not applied",
        9 => "base relocation outside of the image",
        _ => "unknown result",
    }
}

/// The text of an error of a resource tree, by its number from `TREES` on. `tools/make_errors` writes the arms.
#[tactic(auto, unfolding(crate::specs::Texts::tree_text))]
fn tree_text(number: u32) -> &'static str
    ensures { result.now ≡ tree_text number }
{
    match number {
        0 => "resource data entry above the level of languages",
        1 => "resource directory below the level of languages",
        2 => "resource directory of names or languages has no entries",
        _ => "unknown result",
    }
}

/// The text of an error of resources that are written, by its number from `EDITS` on. `tools/make_errors` writes the arms.
#[tactic(auto, using(crate::proofs::LastText::edit_text_past), unfolding(crate::specs::Texts::edit_text))]
fn edit_text(number: u32) -> &'static str
    ensures { result.now ≡ edit_text number }
{
    match number {
        0 => "more than 65,535 resources",
        1 => "type or name of a resource has an odd number of bytes or is too long",
        2 => "resource is not sorted after the one before it",
        3 => "directories and names of the resources have 2^31 bytes or more",
        4 => "resource section ends at the RVA 2^32 or after it",
        5 => "image has no resource directory",
        6 => "image has certificates, which have to be detached first",
        7 => "data directories end after the section table starts",
        8 => "alignment of sections or of their data is too small or no power of two",
        9 => "no section starts at the RVA of the resource directory",
        10 => "data of the sections are in the headers, truncated or not aligned",
        11 => "the entry point, a directory or a base relocation leads where the resources go",
        12 => "COFF symbols lie in the data of the resource section or at its end",
        13 => "section shares bytes or pages with the resource section or headers, or is after it",
        14 => "resources do not fit into the data of their section or into the image in memory",
        15 => "resource has a range outside of the array, or an id or language above 65,535",
        16 => "names of the resources have more than 16 MiB",
        17 => "key of a version block has an odd number of bytes, or a code unit of zero",
        18 => "text of a version block has an odd number of bytes",
        19 => "version block has more than 65,535 bytes",
        20 => "headers have no room for another section header",
        21 => "image with the resources ends after 4 GB",
        22 => "debug entries or their data lie where the resources go",
        23 => "contents of the resources, which share bytes, are too large for their array",
        _ => "unknown result",
    }
}

/// The text of an error of a signature, by its number from `SIGNATURES` on. `tools/make_errors` writes the arms.
#[tactic(auto, using(crate::proofs::LastText::signature_text_past), unfolding(crate::specs::Texts::signature_text))]
fn signature_text(number: u32) -> &'static str
    ensures { result.now ≡ signature_text number }
{
    match number {
        0 => "element of a signature truncated before its content",
        1 => "element of a signature has a tag number above 30",
        2 => "element of a signature has an indefinite length",
        3 => "length of an element of a signature has more than 4 octets after its first",
        4 => "length of an element of a signature is not in its shortest form",
        5 => "element of a signature ends after its parent",
        6 => "element of a signature is missing",
        7 => "element of a signature has another tag",
        8 => "bytes follow the last field of an element of a signature",
        9 => "content of a signature has another type",
        10 => "time of a signature is not in the form of RFC 5280",
        11 => "element of a signature is an end of contents, which DER does not have",
        12 => "element of a signature has no content, which its type does not allow",
        _ => "unknown result",
    }
}

/// The text of an error of a minidump, by its number from `DUMPS` on. `tools/make_errors` writes the arms.
#[tactic(auto, using(crate::proofs::LastText::dump_text_past), unfolding(crate::specs::Texts::dump_text))]
fn dump_text(number: u32) -> &'static str
    ensures { result.now ≡ dump_text number }
{
    match number {
        0 => "invalid signature of a minidump",
        1 => "invalid version of a minidump",
        2 => "directory of the streams ends past the end of the file",
        3 => "location in a minidump ends past the end of the file",
        4 => "number of entries of a list and the size of its stream do not agree",
        5 => "entries of a list smaller than their fields",
        6 => "string has an odd number of bytes",
        7 => "context smaller than its fields",
        8 => "context without control or integer registers",
        9 => "context of another machine",
        _ => "unknown result",
    }
}

/// The text of an error of a program database, by its number from `PDBS` on. `tools/make_errors` writes the arms.
#[tactic(auto, unfolding(crate::specs::Texts::pdb_text))]
fn pdb_text(number: u32) -> &'static str
    ensures { result.now ≡ pdb_text number }
{
    match number {
        0 => "a PDB 2.0, which has another layout",
        1 => "a portable PDB of .NET, which has another layout",
        2 => "not a PDB 7.0",
        3 => "invalid block size of a PDB",
        4 => "blocks of a PDB end past the end of the file",
        5 => "directory of a PDB larger than the file, or than its superblock can list",
        6 => "block of a PDB lies outside of the file",
        7 => "directory of a PDB too short for its streams",
        8 => "PDB has no stream with this number",
        9 => "stream of a PDB has more blocks than the file",
        10 => "read past the end of a stream of a PDB",
        11 => "unknown version of the info stream of a PDB",
        12 => "DBI stream of a PDB does not start with -1",
        13 => "unknown version of the DBI stream of a PDB",
        14 => "parts of the DBI stream of a PDB end past its end",
        15 => "section headers of a PDB are not a multiple of 40 bytes",
        16 => "record of a symbol smaller than its kind",
        17 => "record of a PDB ends past the end of its bytes",
        18 => "name in a PDB not NUL-terminated or not UTF-8",
        19 => "symbols of a module end past the end of its stream",
        20 => "stream of a module does not start with 4",
        21 => "records of a PDB have 4 GB or more",
        22 => "names of the source files of a PDB do not start with 0xEFFEEFFE",
        23 => "unknown version of the section contributions of a PDB",
        24 => "section contributions of a PDB are not a multiple of their size",
        25 => "annotation of an inlined function truncated or not known",
        26 => "more than 64 inlined functions at one offset of a procedure",
        _ => "unknown result",
    }
}

/// The text of the number of a result.
#[tactic(auto, unfolding(crate::specs::Texts::result_text))]
pub fn text_of(number: u32) -> &'static str
    ensures { result.now ≡ result_text number }
{
    if number < NOTHING {
        refusal_text(number)
    } else if number < SIGNING {
        other_text(number)
    } else if number < DIRECTORIES {
        sign_text(number - SIGNING)
    } else if number < TREES {
        directory_text(number - DIRECTORIES)
    } else if number < EDITS {
        tree_text(number - TREES)
    } else if number < SIGNATURES {
        edit_text(number - EDITS)
    } else if number < DUMPS {
        signature_text(number - SIGNATURES)
    } else if number < PDBS {
        dump_text(number - DUMPS)
    } else {
        pdb_text(number - PDBS)
    }
}
