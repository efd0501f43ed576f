//! The exception directory of an image (`.pdata`): a table of entries of 12 bytes on x64 and of 8 bytes on ARM64,
//! sorted by start RVA. A caller finds the entry that covers an RVA, and reads the unwind record to which it leads.
//! See [the .pdata section](https://learn.microsoft.com/windows/win32/debug/pe-format#the-pdata-section).

use crate::arm64::function::{
    Arm64RuntimeFunction, Arm64RuntimeFunctionIterator, SIZE_OF_ARM64_FUNCTION,
};
use crate::arm64::info::Arm64UnwindInfo;
use crate::arm64::lookup::search_arm64;
use crate::function_table::{RuntimeFunction, RuntimeFunctionIterator, SIZE_OF_FUNCTION, search};
use crate::links::linked_record_offset;
use crate::unwind_info::UnwindInfo;
use pe_core::{
    ByteRange, CountedTable, DataDirectory, Error, MappedBytes, ParseOptions, Reason, Result,
    RvaMap, SectionMap, SectionTable, require_bytes,
};
use std::fmt;
use std::marker::Model;

/// The exception directory of an image: where its function table stands in the file, and the bytes of the whole file,
/// in which the unwind records stand.
#[derive(Drop)]
pub struct ExceptionData<'a> {
    bytes: &'a [u8],
    offset: usize,
    size: usize,
    file_alignment: u32,
}

impl<'a> Model for ExceptionData<'a> {
    ghost use Rattle.std.specs.Prelude.{◌+◌, ◌≤◌, length};
    ghost use Rattle.pe_unwind.specs.ExceptionTable.{ExceptionView};

    ghost Value = { ExceptionView };

    ghost view = { λ d. record {
      content = d.bytes.now;
      start = d.offset;
      size = d.size;
      alignment = d.file_alignment;
    } };

    ghost invariant = { λ d. d.offset + d.size ≤ length d.bytes.now };
}

/// Shows where the table stands, without the bytes of the file.
impl<'a> fmt::Debug for ExceptionData<'a> {
    fn fmt<W: fmt::Write>(&self, f: &mut fmt::Formatter<W>) -> fmt::Result {
        f.debug_struct("ExceptionData")
            .field("offset", &self.offset)
            .field("size", &self.size)
            .field("file_alignment", &self.file_alignment)
            .finish()
    }
}

impl<'a> ExceptionData<'a> {
    ghost use Rattle.std.specs.Prelude.{◌≡◌, ◌+◌, ◌<◌, ◌==◌, ◌↔◌, length, Err, IsOkAnd};
    ghost use Rattle.std.specs.Option.{option_map};
    ghost use Rattle.pe_core.specs.Options.{default_options};
    ghost use Rattle.pe_core.specs.Offsets.{IsWithin};
    ghost use Rattle.pe_core.specs.Refusals.{Returns, FunctionCycle, answer_of, answer_by};
    ghost use Rattle.pe_unwind.specs.ExceptionTable.{exception_at, exception_of_table, table_range, table_of, function_of};
    ghost use Rattle.pe_unwind.specs.Arm64Lookup.{FindsArm64, length_by, length_of_arm64};
    ghost use Rattle.pe_unwind.specs.Arm64Functions.{arm64_functions, arm64_function_items, items_of_arm64_functions, arm64_function_of};
    ghost use Rattle.pe_unwind.specs.Arm64Record.{info_view};
    ghost use Rattle.pe_unwind.specs.Arm64Unwinding.{info_by, info_of_function};
    ghost use Rattle.pe_unwind.specs.FunctionTable.{functions, function_items, items_of_functions, Finds};
    ghost use Rattle.pe_core.specs.SectionMap.{map_view};
    ghost use Rattle.pe_unwind.specs.Links.{IsEndless, links_of, links_with};
    ghost use Rattle.pe_unwind.specs.Unwinding.{FindsRecord, Unwinds, UnwindsFound, UnwindsAt};
    ghost use Rattle.pe_unwind.specs.UnwindRecord.{unwind_view};

    /// Parses the exception directory of an x64 image with the default options. Errors: those of `parse_with_opts`.
    pub fn parse(
        bytes: &'a [u8],
        directory: DataDirectory,
        sections: &[SectionTable],
        file_alignment: u32,
    ) -> Result<ExceptionData<'a>>
        ensures { Returns result (exception_at
            12 bytes.entry.now directory sections.now file_alignment default_options) }
    {
        ExceptionData::parse_with_opts(
            bytes,
            directory,
            sections,
            file_alignment,
            &ParseOptions::default(),
        )
    }

    /// Parses the exception directory of an x64 image, whose entries have 12 bytes. `bytes` is the whole file.
    ///
    /// Errors, in this order: `ExceptionSize` if the directory's size is not a multiple of 12; `Unmapped` if its RVA
    /// is not mapped; `ExceptionOffset` if its file offset is not a multiple of 4; `ExceptionBounds` if the table
    /// passes the end of the file.
    pub fn parse_with_opts(
        bytes: &'a [u8],
        directory: DataDirectory,
        sections: &[SectionTable],
        file_alignment: u32,
        opts: &ParseOptions,
    ) -> Result<ExceptionData<'a>>
        ensures { Returns result
            (exception_at 12 bytes.entry.now directory sections.now file_alignment opts.now) }
    {
        let image = MappedBytes::new(bytes, sections, file_alignment, opts);
        ExceptionData::parse_table(&image, directory, SIZE_OF_FUNCTION)
    }

    /// Parses the exception directory of an ARM64 image, whose entries have 8 bytes. Errors: as `parse_with_opts`, but
    /// `ExceptionSize` if the directory's size is not a multiple of 8.
    pub fn parse_arm64_with_opts(
        bytes: &'a [u8],
        directory: DataDirectory,
        sections: &[SectionTable],
        file_alignment: u32,
        opts: &ParseOptions,
    ) -> Result<ExceptionData<'a>>
        ensures { Returns result
            (exception_at 8 bytes.entry.now directory sections.now file_alignment opts.now) }
    {
        let image = MappedBytes::new(bytes, sections, file_alignment, opts);
        ExceptionData::parse_table(&image, directory, SIZE_OF_ARM64_FUNCTION)
    }

    /// Parses the exception directory whose entries have `width` bytes.
    #[tactic(auto, unfolding(crate::specs::ExceptionTable::exception_at))]
    fn parse_table(
        image: &MappedBytes<'a, '_>,
        directory: DataDirectory,
        width: usize,
    ) -> Result<ExceptionData<'a>>
        requires { 0 < width }
        ensures { Returns result (exception_at width image.now.bytes.now directory
            image.now.map.sections image.now.map.alignment image.now.map.opts) }
    {
        let bytes = image.bytes;
        let DataDirectory {
            virtual_address,
            size,
        } = directory;
        if size as usize % width != 0 {
            return Err(Error::Malformed(Reason::ExceptionSize(size)));
        }
        let offset = image.map.offset_of(virtual_address)?;
        if offset % 4 != 0 {
            return Err(Error::Malformed(Reason::ExceptionOffset(offset as u64)));
        }
        let size = size as usize;
        if bytes.len() < size || bytes.len() - size < offset {
            // The sum of offset and size may pass a `usize`; the error reports it up to the greatest `u64`.
            let end = (offset as u64).saturating_add(size as u64);
            return Err(Error::Malformed(Reason::ExceptionBounds(end)));
        }
        Ok(ExceptionData {
            bytes,
            offset,
            size,
            file_alignment: image.map.file_alignment(),
        })
    }

    /// The exception data whose function table is this range of the file, as `table_range` returned it: nothing is looked up.
    ///
    /// Error: `Short` if the range passes the end of the file.
    pub fn of_table(
        bytes: &'a [u8],
        table: ByteRange,
        file_alignment: u32,
    ) -> Result<ExceptionData<'a>>
        ensures { Returns result (exception_of_table bytes.entry.now table file_alignment) }
    {
        require_bytes(bytes, table.offset, table.length)?;
        Ok(ExceptionData {
            bytes,
            offset: table.offset,
            size: table.length,
            file_alignment,
        })
    }

    /// The range of the function table in the file; it lies in the bytes.
    pub fn table_range(&self) -> ByteRange
        ensures range { result ≡ table_range self.now }
        ensures within { IsWithin self.now.content result }
    {
        ByteRange {
            offset: self.offset,
            length: self.size,
        }
    }

    /// The bytes of the function table.
    fn table_bytes(&self) -> &'a [u8]
        ensures bytes { result.now ≡ table_of self.now }
        ensures size { length result.now ≡ self.now.size }
    {
        self.table_range().of(self.bytes)
    }

    /// How many whole x64 entries the table has, 12 bytes each.
    #[tactic(auto, using(crate::proofs::Searches::length_functions))]
    pub fn len(&self) -> usize
        ensures { result ≡ length (functions (table_of self.now)) }
    {
        self.table_bytes().len() / SIZE_OF_FUNCTION
    }

    /// How many whole ARM64 entries the table has, 8 bytes each.
    #[tactic(auto, using(crate::proofs::Arm64Entries::whole_count))]
    pub fn len_arm64(&self) -> usize
        ensures { result ≡ length (arm64_functions (table_of self.now)) }
    {
        self.table_bytes().len() / SIZE_OF_ARM64_FUNCTION
    }

    /// Whether the table has no bytes.
    pub fn is_empty(&self) -> bool
        ensures { result ≡ (self.now.size == 0) }
    {
        self.size == 0
    }

    /// The x64 entries in the order of the table. A truncated last entry is one `Short` item.
    pub fn functions(&self) -> RuntimeFunctionIterator<'a>
        ensures { items_of_functions result ≡ function_items (table_of self.now) }
    {
        RuntimeFunctionIterator::new(self.table_bytes())
    }

    /// The x64 entry with this index, which counts entries. Errors: `FunctionIndex` if the index is not below `len()`.
    pub fn get_function(&self, index: usize) -> Result<RuntimeFunction>
        ensures { Returns result (function_of (table_of self.now) index) }
    {
        RuntimeFunction::of_table(self.table_bytes(), index)
    }

    /// The ARM64 entries in the order of the table. A truncated last entry is one `Short` item.
    pub fn functions_arm64(&self) -> Arm64RuntimeFunctionIterator<'a>
        ensures { items_of_arm64_functions result ≡ arm64_function_items (table_of self.now) }
    {
        Arm64RuntimeFunctionIterator::new(self.table_bytes())
    }

    /// The ARM64 entry with this index, which counts entries. Errors: `FunctionIndex` if the index is not below
    /// `len_arm64()`.
    pub fn get_function_arm64(&self, index: usize) -> Result<Arm64RuntimeFunction>
        ensures { Returns result (arm64_function_of (table_of self.now) index) }
    {
        Arm64RuntimeFunction::of_table(self.table_bytes(), index)
    }

    /// The table as `search` takes it, with a count of 0 reads.
    pub fn table(&self) -> CountedTable<'a>
        ensures { result ≡ record { content = table_of self.now; count = 0 } }
    {
        CountedTable::new(self.table_bytes())
    }

    /// The x64 entry that covers the RVA, as `search` finds it. Never returns an error.
    pub fn find_function(&self, rva: u32) -> Result<Option<RuntimeFunction>>
        ensures { IsOkAnd result (Finds (functions (table_of self.now)) rva) }
    {
        let mut table = self.table();
        Ok(search(&mut table, rva))
    }

    /// The ARM64 entry that covers the RVA, as `search_arm64` finds it.
    ///
    /// Errors, of the record of the entry at which lookup stops: `Unmapped` if its RVA is not mapped; `Short` if its
    /// header is truncated.
    pub fn find_function_arm64(
        &self,
        rva: u32,
        sections: &[SectionTable],
        opts: &ParseOptions,
    ) -> Result<Option<Arm64RuntimeFunction>>
        ensures { FindsArm64 (length_of_arm64 self.now.content
            (map_view opts.now sections.now self.now.alignment))
            (arm64_functions (table_of self.now)) rva (answer_of result) }
    {
        self.find_function_arm64_with_map(rva, &self.section_map(sections, opts))
    }

    /// The same by a map that many calls share: the section map, or another.
    pub fn find_function_arm64_with_map<R: RvaMap>(
        &self,
        rva: u32,
        map: &R,
    ) -> Result<Option<Arm64RuntimeFunction>>
        ensures { FindsArm64 (length_by (R.offset map.now) self.now.content)
            (arm64_functions (table_of self.now)) rva (answer_of result) }
    {
        let mut table = self.table();
        search_arm64(&mut table, rva, self.bytes, map)
    }

    /// The section map of `sections` with these options and the file alignment of the image. Pass it to
    /// `get_unwind_info_with_map` when many records are read.
    pub fn section_map<'b>(
        &self,
        sections: &'b [SectionTable],
        opts: &ParseOptions,
    ) -> SectionMap<'b>
        ensures { result ≡ map_view opts.now sections.entry.now self.now.alignment }
    {
        SectionMap::new(sections, self.file_alignment, opts)
    }

    /// The file offset of the unwind record of an unwind RVA, as `unwind_info_address` of an entry has it. An even RVA
    /// is that of the record. An odd one is a link to the entry at that RVA minus one, whose unwind RVA is followed
    /// instead.
    ///
    /// Errors: `Unmapped` if the RVA of a link is not mapped; `FunctionLink` if no whole entry starts there;
    /// `FunctionCycle` if the links never end; then `Unmapped` if the RVA at their end is not mapped.
    pub fn record_offset(
        &self,
        unwind_address: u32,
        sections: &[SectionTable],
        opts: &ParseOptions,
    ) -> Result<usize>
        ensures { FindsRecord
            (links_of self.now sections.now opts.now) unwind_address (answer_of result) }
    {
        let sections = self.section_map(sections, opts);
        linked_record_offset(self.table_bytes(), self.offset, &sections, unwind_address)
    }

    /// The unwind record of an x64 function, with the default options. Errors: those of `get_unwind_info_with_opts`.
    pub fn get_unwind_info(
        &self,
        function: RuntimeFunction,
        sections: &[SectionTable],
    ) -> Result<UnwindInfo<'a>>
        ensures record { Unwinds (links_of self.now sections.now default_options)
            self.now.content function.unwind_info_address (answer_by unwind_view result) }
        ensures cycle { (answer_by unwind_view result ≡ Err FunctionCycle) ↔ IsEndless
            (links_of self.now sections.now default_options) function.unwind_info_address }
    {
        self.get_unwind_info_with_opts(function, sections, &ParseOptions::default())
    }

    /// The unwind record of an x64 function. An odd unwind RVA is a link to the entry at that RVA minus one, whose
    /// unwind RVA is followed instead.
    ///
    /// Errors: `Unmapped` if the RVA of a link is not mapped; `FunctionLink` if no whole entry starts there;
    /// `FunctionCycle` if the links never end; then `Unmapped` if the RVA of the record is not mapped; then those of
    /// `UnwindInfo::parse`.
    pub fn get_unwind_info_with_opts(
        &self,
        function: RuntimeFunction,
        sections: &[SectionTable],
        opts: &ParseOptions,
    ) -> Result<UnwindInfo<'a>>
        ensures record { Unwinds (links_of self.now sections.now opts.now)
            self.now.content function.unwind_info_address (answer_by unwind_view result) }
        ensures cycle { (answer_by unwind_view result ≡ Err FunctionCycle)
            ↔ IsEndless (links_of self.now sections.now opts.now) function.unwind_info_address }
    {
        let sections = self.section_map(sections, opts);
        self.get_unwind_info_with_map(function, &sections)
    }

    /// The unwind record of an x64 function, as `get_unwind_info_with_opts` reads it, by a map that many calls share:
    /// the section map, or another.
    #[inline(always)]
    pub fn get_unwind_info_with_map<R: RvaMap>(
        &self,
        function: RuntimeFunction,
        map: &R,
    ) -> Result<UnwindInfo<'a>>
        ensures record { Unwinds (links_with self.now (R.offset map.now))
            self.now.content function.unwind_info_address (answer_by unwind_view result) }
        ensures cycle { (answer_by unwind_view result ≡ Err FunctionCycle)
            ↔ IsEndless (links_with self.now (R.offset map.now)) function.unwind_info_address }
    {
        self.linked_record(map, function.unwind_info_address)
    }

    /// The unwind record at the end of the links from an unwind RVA.
    #[inline(always)]
    fn linked_record<R: RvaMap>(&self, map: &R, address: u32) -> Result<UnwindInfo<'a>>
        ensures { Unwinds (links_with self.now (R.offset map.now))
            self.now.content address (answer_by unwind_view result) }
    {
        let offset = linked_record_offset(self.table_bytes(), self.offset, map, address)?;
        UnwindInfo::parse(self.bytes, offset)
    }

    /// The unwind record of an ARM64 function, with the default options, as `get_unwind_info_arm64_with_opts` reads
    /// it.
    pub fn get_unwind_info_arm64(
        &self,
        function: Arm64RuntimeFunction,
        sections: &[SectionTable],
    ) -> Option<Result<Arm64UnwindInfo<'a>>>
        ensures { option_map (answer_by info_view) result
            ≡ info_of_function self.now sections.now default_options function }
    {
        self.get_unwind_info_arm64_with_opts(function, sections, &ParseOptions::default())
    }

    /// The unwind record of an ARM64 function. `None` if its unwind data are packed into the entry.
    ///
    /// Errors: `Unmapped` if the RVA of the record is not mapped; then those of `Arm64UnwindInfo::parse`.
    pub fn get_unwind_info_arm64_with_opts(
        &self,
        function: Arm64RuntimeFunction,
        sections: &[SectionTable],
        opts: &ParseOptions,
    ) -> Option<Result<Arm64UnwindInfo<'a>>>
        ensures { option_map (answer_by info_view) result
            ≡ info_of_function self.now sections.now opts.now function }
    {
        self.get_unwind_info_arm64_with_map(function, &self.section_map(sections, opts))
    }

    /// The same by a map that many calls share: the section map, or another.
    pub fn get_unwind_info_arm64_with_map<R: RvaMap>(
        &self,
        function: Arm64RuntimeFunction,
        map: &R,
    ) -> Option<Result<Arm64UnwindInfo<'a>>>
        ensures { option_map (answer_by info_view) result
            ≡ info_by (R.offset map.now) self.now.content function }
    {
        match function.record_offset(map)? {
            Ok(offset) => Some(Arm64UnwindInfo::parse(self.bytes, offset)),
            Err(error) => Some(Err(error)),
        }
    }

    /// The unwind record of the x64 function that covers the RVA: lookup, links and record in one call. `Ok(None)` if
    /// lookup finds no function. Errors: those of `get_unwind_info_with_opts`.
    #[tactic(auto, using(crate::proofs::LinkChains::unwinds_at_code))]
    pub fn unwind_at(
        &self,
        rva: u32,
        sections: &[SectionTable],
        opts: &ParseOptions,
    ) -> Result<Option<UnwindInfo<'a>>>
        ensures { UnwindsAt self.now sections.now opts.now rva
            (answer_by (option_map unwind_view) result) }
    {
        let mut table = self.table();
        let found = search(&mut table, rva);
        self.record_of_found(found, sections, opts)
    }

    /// The unwind record of the function that lookup found, if it found one.
    fn record_of_found(
        &self,
        found: Option<RuntimeFunction>,
        sections: &[SectionTable],
        opts: &ParseOptions,
    ) -> Result<Option<UnwindInfo<'a>>>
        ensures { UnwindsFound (links_of self.now sections.now opts.now) self.now.content found
            (answer_by (option_map unwind_view) result) }
    {
        let Some(function) = found else {
            return Ok(None);
        };
        let sections = self.section_map(sections, opts);
        let info = self.linked_record(&sections, function.unwind_info_address)?;
        Ok(Some(info))
    }
}

impl<'a, 'b> IntoIterator for &'b ExceptionData<'a> {
    ghost use Rattle.std.specs.Prelude.{◌≡◌};
    ghost use Rattle.pe_unwind.specs.ExceptionTable.{table_of};
    ghost use Rattle.pe_unwind.specs.FunctionTable.{function_items, items_of_functions};

    type Item = Result<RuntimeFunction>;

    type IntoIter = RuntimeFunctionIterator<'a>;

    ghost into_iter_gives = { λ s it. items_of_functions it ≡ function_items (table_of s.now) };

    fn into_iter(self) -> RuntimeFunctionIterator<'a> {
        self.functions()
    }
}
