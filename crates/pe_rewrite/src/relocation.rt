//! The base relocations of an image. A loader applies them to what an edit writes too, so that resources are not written over what
//! one changes. See Microsoft's
//! [.reloc section](https://learn.microsoft.com/windows/win32/debug/pe-format#the-reloc-section-image-only).

ghost use Rattle.std.specs.Prelude.{◌≡◌, ◌≤◌, [], ◌∷◌, length};
ghost use Rattle.pe_core.specs.Bytes.{range};
ghost use Rattle.pe_core.specs.Header.{header_view};
ghost use Rattle.pe_core.specs.Refusals.{outcome};
ghost use Rattle.pe_directories.specs.BaseRelocations.{block_view};
ghost use Rattle.pe_directories.specs.DirectoryRefusals.{directory_answer};
ghost use Rattle.pe_rewrite.specs.Places.{headers_end, relocations_beside};
ghost use Rattle.pe_rewrite.specs.Relocations.{block_beside, first_changed, is_beside, item_beside, most_changed, table_at, table_beside};
ghost use Rattle.pe_rewrite.specs.RewriteRefusals.{RewriteReturns, SharedSection};

use crate::directory::{directory_in, offset_of};
use crate::error::RewriteError;
use crate::place::Target;
use pe_core::{DataDirectory, Header};
use pe_directories::{
    BaseRelocation, DirectoryError, IMAGE_REL_BASED_ABSOLUTE, IMAGE_REL_BASED_DIR64,
    IMAGE_REL_BASED_HIGHADJ, IMAGE_REL_BASED_HIGHLOW, IMAGE_REL_BASED_LOW, RelocationBlock,
    RelocationBlocks,
};

/// The index of the base relocations' directory.
const BASE_RELOCATION_TABLE: usize = 5;

/// The type that changes an instruction of IA-64, in a bundle of 16 bytes.
const IMAGE_REL_BASED_IA64_IMM64: u8 = 9;

const BUNDLE: usize = 16;

/// RVAs that resources go to, or have.
#[derive(Clone, Copy)]
pub struct Rvas {
    /// The first one, and the one after the last.
    pub start: usize,
    pub end: usize,
    /// Whether a relocation that is not read counts as none, not as one that changes bytes there.
    pub skips_unread: bool,
}

/// How many bytes a relocation of this type changes at most. What types 5 to 9 change depends on the machine; no loader has types
/// above 10.
fn most_changed(kind: u8) -> usize
    ensures value { result ≡ most_changed kind }
    ensures small { result ≤ 16 }
{
    if kind <= IMAGE_REL_BASED_LOW || kind == IMAGE_REL_BASED_HIGHADJ {
        2
    } else if kind == IMAGE_REL_BASED_HIGHLOW {
        4
    } else if kind == IMAGE_REL_BASED_DIR64 {
        8
    } else {
        16
    }
}

/// The first RVA that a relocation may change.
fn first_changed(relocation: &BaseRelocation) -> usize
    ensures { result ≡ first_changed relocation.now }
{
    if relocation.kind == IMAGE_REL_BASED_IA64_IMM64 {
        relocation.rva / BUNDLE * BUNDLE
    } else {
        relocation.rva
    }
}

/// Whether a relocation changes no byte there.
fn is_beside(item: &Result<BaseRelocation, DirectoryError>, rvas: &Rvas) -> bool
    ensures { result ≡ is_beside rvas.now (directory_answer (λ x. x) item.now) }
{
    match item {
        Ok(relocation) => {
            let most = most_changed(relocation.kind);
            relocation.kind == IMAGE_REL_BASED_ABSOLUTE
                || most <= rvas.start && relocation.rva <= rvas.start - most
                || rvas.end <= first_changed(relocation)
        }
        Err(_) => rvas.skips_unread,
    }
}

/// The same of all relocations of a block.
fn block_beside(block: &RelocationBlock<'_>, rvas: &Rvas) -> bool
    ensures { result ≡ block_beside rvas.now (block_view block.now) }
{
    let mut relocations = block.relocations();
    while let Some(item) = relocations.next() {
        if !is_beside(&item, rvas) {
            return false;
        }
    }
    true
}

/// The same of a block that may not be read.
fn item_beside(item: &Result<RelocationBlock<'_>, DirectoryError>, rvas: &Rvas) -> bool
    ensures { result ≡ item_beside rvas.now (directory_answer block_view item.now) }
{
    match item {
        Ok(block) => block_beside(block, rvas),
        Err(_) => rvas.skips_unread,
    }
}

/// The same of all blocks of a table.
fn table_beside(table: &[u8], rvas: &Rvas) -> bool
    ensures { result ≡ table_beside rvas.now table.now }
{
    let mut blocks = RelocationBlocks::new(table);
    while let Some(item) = blocks.next() {
        if !item_beside(&item, rvas) {
            return false;
        }
    }
    true
}

/// As many bytes from an offset on, as much of them as is in the file.
fn bytes_at(bytes: &[u8], offset: usize, size: u32) -> &[u8]
    ensures { result.now ≡ range bytes.entry.now offset size }
{
    let start = offset.min(bytes.len());
    let end = start + (size as usize).min(bytes.len() - start);
    &bytes[start..end]
}

/// The table of a directory that the section map leads to this offset; if to none, it is in the headers, of so many bytes, or nowhere.
fn table_at(bytes: &[u8], directory: DataDirectory, headers: u32, offset: Option<usize>) -> &[u8]
    ensures { result.now ≡ table_at bytes.entry.now directory headers offset }
{
    match offset {
        Some(offset) => bytes_at(bytes, offset, directory.size),
        None => {
            if directory.virtual_address < headers {
                bytes_at(bytes, directory.virtual_address as usize, directory.size)
            } else {
                &[]
            }
        }
    }
}

/// `SharedSection` if a base relocation changes what is at these RVAs.
#[tactic(auto, unfolding(crate::specs::Places::relocations_beside))]
pub fn require_unrelocated(
    bytes: &[u8],
    header: &Header<'_>,
    target: &Target,
    rvas: &Rvas,
) -> Result<(), RewriteError>
    requires { headers_end (header_view header.now) ≤ length bytes.now }
    ensures { RewriteReturns result (outcome
        ((relocations_beside bytes.now (header_view header.now) target.now rvas.now, SharedSection) ∷ []) tt) }
{
    let directory = directory_in(header, BASE_RELOCATION_TABLE);
    let offset = offset_of(
        bytes,
        header,
        target.file_alignment,
        directory.virtual_address,
    );
    let table = table_at(bytes, directory, target.size_of_headers, offset);
    if !table_beside(table, rvas) {
        return Err(RewriteError::SharedSection(directory.virtual_address));
    }
    Ok(())
}
