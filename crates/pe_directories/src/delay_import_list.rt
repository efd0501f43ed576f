//! Delay imports as lists: the DLLs with their names, and what is imported of each. A hostile image may let thousands of names
//! start in one long text, where to read each by itself would take quadratic time; the names of a list are read together.
//!
//! A caller makes an `IndexedImage` of the image once, lists the DLLs, then the functions of each.

ghost use Rattle.std.specs.Prelude.{◌≡◌, map, IfOk};
ghost use Rattle.std.specs.Option.{option_map};
ghost use Rattle.pe_core.specs.Text.{text_at};
ghost use Rattle.pe_directories.specs.DelayImports.{delay_imports_left, dll_of, dll_view, dlls_left, function_view, functions_of, imported_by};
ghost use Rattle.pe_directories.specs.DelayImportSteps.{AreItemNames, dll_name_offset, entry_items, function_name_offset, item_offset, table_items};
ghost use Rattle.pe_directories.specs.DirectoryRefusals.{DirectoryReturns, DirectoryReturnsUnlessMemory, directory_answer};
ghost use Rattle.pe_directories.specs.Walks.{each_read};

use crate::delay_import::{DelayImport, DelayImports, DelayedFunction, ordinal_of};
use crate::error::{DirectoryError, Result};
use crate::indexed_image::IndexedImage;
use crate::va_table::VaTable;
use pe_core::{texts_at, u16_at};
use std::alloc::{AllocError, Allocator};

/// The size of the hint before a function's name in bytes.
const SIZE_OF_HINT: usize = 2;

/// A delay-loaded DLL.
#[derive(Clone, Copy)]
pub struct DelayedDll<'a> {
    /// Its entry of the directory.
    pub entry: DelayImport,
    /// Its name.
    pub name: &'a str,
}

impl DelayImport {
    /// The DLL, whose name was looked up. Errors, in order: `VaBelowBase`, `Image` with `Unmapped`, `DelayImportName`.
    #[tactic(auto, unfolding(crate::specs::DelayImports::delay_name))]
    fn named_dll<'a, A: Allocator>(
        &self,
        image: &IndexedImage<'a, A>,
        name: Option<&'a str>,
    ) -> Result<DelayedDll<'a>>
        requires { option_map (λ s. s.now) name ≡ text_at image.now.bytes
            (dll_name_offset image.now self.now) }
        ensures { DirectoryReturns dll_view result (dll_of image.now self.now) }
    {
        let offset = self.offset_by_index(image, self.name)?;
        match name {
            Some(name) => Ok(DelayedDll { entry: *self, name }),
            None => Err(DirectoryError::DelayImportName(offset)),
        }
    }

    /// The offset of the name that a number of the table leads to, after its hint; for an ordinal, for an address that is not
    /// mapped, and for an error one at which no byte is.
    #[tactic(auto, unfolding(crate::specs::DelayImportSteps::function_name_offset))]
    fn function_name_offset<A: Allocator>(
        &self,
        image: &IndexedImage<'_, A>,
        item: Result<u64>,
    ) -> usize
        ensures { result ≡ item_offset (function_name_offset image.now self.now)
            (directory_answer (λ x. x) item) }
    {
        let Ok(lookup) = item else {
            return usize::MAX;
        };
        if ordinal_of(lookup, image.is_64()).is_some() {
            return usize::MAX;
        }
        match self.hint_offset_by_index(image, lookup) {
            Ok(offset) => offset.saturating_add(SIZE_OF_HINT),
            Err(_) => usize::MAX,
        }
    }

    /// What a number of the table imports, whose name was looked up. Errors: those of `imported`.
    #[tactic(auto, unfolding(crate::specs::DelayImports::imported_by, crate::specs::DelayImports::hint_and_name, crate::specs::DelayImports::delay_name, crate::specs::DelayImportSteps::function_name_offset))]
    fn named_function<'a, A: Allocator>(
        &self,
        image: &IndexedImage<'a, A>,
        lookup: u64,
        name: Option<&'a str>,
    ) -> Result<DelayedFunction<'a>>
        requires { option_map (λ s. s.now) name ≡ text_at image.now.bytes
            (function_name_offset image.now self.now lookup) }
        ensures { DirectoryReturns function_view result (imported_by image.now self.now lookup) }
    {
        if let Some(ordinal) = ordinal_of(lookup, image.is_64()) {
            return Ok(DelayedFunction::Ordinal(ordinal));
        }
        let offset = self.hint_offset_by_index(image, lookup)?;
        let hint = u16_at(image.bytes(), offset)?;
        match name {
            Some(name) => Ok(DelayedFunction::Name { hint, name }),
            None => Err(DirectoryError::DelayImportName(offset + SIZE_OF_HINT)),
        }
    }

    /// The offsets of the names that the numbers of a table lead to.
    fn function_name_offsets<A: Allocator>(
        &self,
        alloc: A,
        image: &IndexedImage<'_, A>,
        mut table: VaTable<'_>,
    ) -> std::result::Result<Vec<usize, A>, AllocError>
        ensures { IfOk result (λ v. v.items ≡ map
            (item_offset (function_name_offset image.now self.now)) (table_items table.entry)) }
    {
        let mut offsets = Vec::new(alloc);
        while let Some(item) = table.next() {
            offsets.push(self.function_name_offset(image, item))?;
        }
        Ok(offsets)
    }

    /// What the numbers of a table import, whose names are these. Errors, in their order: `Image` with `Short`, of the table;
    /// those of `imported`.
    fn named_functions<'a, A: Allocator>(
        &self,
        alloc: A,
        image: &IndexedImage<'a, A>,
        mut table: VaTable<'_>,
        names: &[Option<&'a str>],
    ) -> Result<Vec<DelayedFunction<'a>, A>>
        requires { AreItemNames image.now.bytes (function_name_offset image.now self.now)
            (table_items table) names.now }
        ensures { DirectoryReturnsUnlessMemory (λ v. map function_view v.items) result
            (each_read (imported_by image.now self.now) (table_items table.entry)) }
    {
        let mut functions = Vec::with_capacity(alloc, names.len())?;
        for name in names {
            let Some(item) = table.next() else {
                return Ok(functions);
            };
            functions.push(self.named_function(image, item?, *name)?)?;
        }
        Ok(functions)
    }

    /// All that is imported of the DLL: what each number of `lookups` imports, in their order, as `imported` returns it. It
    /// takes about as long as to sort the names by their offsets, and to read each byte of the image a few times, however many
    /// names overlap. Errors, in order:
    /// - of the table: `VaBelowBase`, `Image` with `Unmapped`;
    /// - of each number in turn, those of `imported`; `Image` with `Short`, if the bytes end before a zero number.
    ///
    /// `Image` with `Memory` is possible after the first two.
    pub fn functions<'a, A: Allocator + Copy + Drop>(
        &self,
        alloc: A,
        image: &IndexedImage<'a, A>,
    ) -> Result<Vec<DelayedFunction<'a>, A>>
        ensures { DirectoryReturnsUnlessMemory (λ v. map function_view v.items) result
            (functions_of image.now self.now) }
    {
        let offset = self.offset_by_index(image, self.import_name_table)?;
        let table = VaTable::new(image.from_offset(offset), image.is_64());
        let offsets = self.function_name_offsets(alloc, image, table)?;
        // All names at once: many of them may lie in one long text.
        let names = texts_at(alloc, image.bytes(), &offsets)?;
        self.named_functions(alloc, image, table, &names)
    }
}

/// The offset of the name of an entry's DLL; for an address that is not mapped, and for an error one at which no byte is.
fn dll_name_offset<A: Allocator>(image: &IndexedImage<'_, A>, item: Result<DelayImport>) -> usize
    ensures { result ≡ item_offset (dll_name_offset image.now) (directory_answer (λ x. x) item) }
{
    let Ok(entry) = item else {
        return usize::MAX;
    };
    match entry.offset_by_index(image, entry.name) {
        Ok(offset) => offset,
        Err(_) => usize::MAX,
    }
}

/// The offsets of the names of the DLLs.
fn dll_name_offsets<A: Allocator>(
    alloc: A,
    image: &IndexedImage<'_, A>,
    mut entries: DelayImports<'_>,
) -> std::result::Result<Vec<usize, A>, AllocError>
    ensures { IfOk result (λ v. v.items ≡ map
        (item_offset (dll_name_offset image.now)) (entry_items entries.entry)) }
{
    let mut offsets = Vec::new(alloc);
    while let Some(item) = entries.next() {
        offsets.push(dll_name_offset(image, item))?;
    }
    Ok(offsets)
}

/// The DLLs, whose names are these. Errors, in their order: `Image` with `Short`, of an entry; those of `DelayImport::dll`.
fn named_dlls<'a, A: Allocator>(
    alloc: A,
    image: &IndexedImage<'a, A>,
    mut entries: DelayImports<'_>,
    names: &[Option<&'a str>],
) -> Result<Vec<DelayedDll<'a>, A>>
    requires { AreItemNames image.now.bytes (dll_name_offset image.now)
        (entry_items entries) names.now }
    ensures { DirectoryReturnsUnlessMemory (λ v. map dll_view v.items) result
        (each_read (dll_of image.now) (entry_items entries.entry)) }
{
    let mut dlls = Vec::with_capacity(alloc, names.len())?;
    for name in names {
        let Some(item) = entries.next() else {
            return Ok(dlls);
        };
        dlls.push(item?.named_dll(image, *name)?)?;
    }
    Ok(dlls)
}

impl<'a> DelayImports<'a> {
    /// The DLLs that are left, in the order of their entries, each with its name as `DelayImport::dll` returns it. It takes
    /// about as long as to sort the names by their offsets, and to read each byte of the image a few times, however many names
    /// overlap. Errors, of each entry in turn: `Image` with `Short`; those of `DelayImport::dll`. `Image` with `Memory` is
    /// possible at any point.
    pub fn dlls<'b, A: Allocator + Copy + Drop>(
        &self,
        alloc: A,
        image: &IndexedImage<'b, A>,
    ) -> Result<Vec<DelayedDll<'b>, A>>
        ensures { DirectoryReturnsUnlessMemory (λ v. map dll_view v.items) result
            (dlls_left image.now (delay_imports_left self.now)) }
    {
        let offsets = dll_name_offsets(alloc, image, *self)?;
        // All names at once: many of them may lie in one long text.
        let names = texts_at(alloc, image.bytes(), &offsets)?;
        named_dlls(alloc, image, *self, &names)
    }
}
