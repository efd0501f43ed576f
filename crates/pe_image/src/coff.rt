//! COFF objects, the output of a compiler. The file starts with the COFF header; the section table follows it, and the
//! header says where the symbols are. The string table follows the symbols. Layout:
//! <https://learn.microsoft.com/windows/win32/debug/pe-format>. A linker or a symbol dumper starts with `Coff::parse`.

ghost use Rattle.pe_core.specs.Refusals.{ReturnsUnlessMemoryAfter};
ghost use Rattle.pe_image.specs.Objects.{object_sections};

use pe_core::{CoffHeader, Result, SectionTable, Strtab, SymbolTable};
use std::alloc::{Allocator, Global};

/// The size of a COFF header in bytes.
const SIZE_OF_COFF_HEADER: usize = 20;

/// A COFF object, as a compiler writes it.
#[derive(Debug, Drop)]
pub struct Coff<'a, A: Allocator + Copy + Drop = Global> {
    /// The COFF header, at the start of the file.
    pub header: CoffHeader,
    /// The section headers, in the order of the section table.
    pub sections: Vec<SectionTable, A>,
    /// The symbol table. `None` if the header has no pointer to it.
    pub symbols: Option<SymbolTable<'a>>,
    /// The string table after the symbols. `None` without symbols, or if the file ends after them.
    pub strings: Option<Strtab<'a>>,
}

/// The section headers of an object. They follow the optional header, which an object usually doesn't have. Errors, in
/// this order: `Short`, `Memory`.
fn object_sections<A: Allocator>(
    alloc: A,
    bytes: &[u8],
    header: &CoffHeader,
) -> Result<Vec<SectionTable, A>>
    ensures { ReturnsUnlessMemoryAfter (object_sections bytes.now header.now) (λ v. v.items)
        result (object_sections bytes.now header.now) }
{
    let offset = SIZE_OF_COFF_HEADER + header.size_of_optional_header as usize;
    header.sections(alloc, bytes, offset)
}

impl<'a, A: Allocator + Copy + Drop> Coff<'a, A> {
    ghost use Rattle.pe_image.specs.Objects.{object_view, sections_of_object, object_of};

    /// Reads the object in `bytes`, a whole file. Errors, in this order: `Short` if the header or the section headers
    /// are truncated; `Memory`; `Short` if the symbols are truncated; `StringTable` if the string table is.
    #[tactic(auto, unfolding(crate::specs::Objects::object_of))]
    pub fn parse(alloc: A, bytes: &'a [u8]) -> Result<Coff<'a, A>>
        ensures { ReturnsUnlessMemoryAfter
            (sections_of_object bytes.entry.now) object_view result (object_of bytes.entry.now) }
    {
        let header = CoffHeader::parse(bytes, 0)?;
        let sections = object_sections(alloc, bytes, &header)?;
        Ok(Coff {
            header,
            sections,
            symbols: header.symbols(bytes)?,
            strings: header.strings(bytes)?,
        })
    }
}
