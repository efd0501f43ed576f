//! The tables that a load configuration leads to, of code that control may go to: the functions that may be called
//! indirectly, exception handlers on x86, import address table entries whose address is taken, targets of `longjmp` and
//! continuations of exceptions.
//!
//! A table is at a virtual address, and has as many entries as the load configuration says. An entry is an RVA of 4 bytes and,
//! but for those of exception handlers, as many bytes of flags as bits 28 to 31 of the guard flags say
//! ([layout](https://learn.microsoft.com/windows/win32/secbp/pe-metadata)). Microsoft's linker sorts entries by RVA; that is
//! not tested. A scanner finds whether a function may be called indirectly by a walk through the first of them.

ghost use Rattle.std.specs.Prelude.{◌≡◌, ◌/◌, ◌^◌, None, Some, IfOk};
ghost use Rattle.std.specs.Iterator.{at_most};
ghost use Rattle.std.specs.Option.{option_map, unwrap_or};
ghost use Rattle.pe_directories.specs.DirectoryRefusals.{DirectoryReturns};
ghost use Rattle.pe_directories.specs.GuardTables.{guarded_view, first_guarded, flag_size, flag_size_of, guard_table, guarded_left, most_guarded};
ghost use Rattle.pe_directories.specs.ImageParts.{image_view};
ghost use Rattle.pe_directories.specs.Walks.{Steps, rest_of};

use crate::error::{DirectoryError, Result};
use crate::image_bytes::ImageBytes;
use crate::load_config::LoadConfig;
use pe_core::{read_u32, require_bytes};

/// Of the first byte of flags: the function is not called indirectly unless the image asks for it at run time.
pub const IMAGE_GUARD_FLAG_FID_SUPPRESSED: u8 = 1;

/// Of the first byte of flags: the function is called indirectly by its export alone.
pub const IMAGE_GUARD_FLAG_EXPORT_SUPPRESSED: u8 = 2;

/// The size of an entry's RVA in bytes.
const SIZE_OF_RVA: usize = 4;

/// An entry of a table.
#[derive(Clone, Copy)]
pub struct GuardEntry<'a> {
    /// The RVA of the function, handler, target or entry.
    pub rva: u32,
    /// The flags that follow it, up to 15 bytes. `IMAGE_GUARD_FLAG_*` are of the first of them.
    pub flags: &'a [u8],
}

/// The entries of a table that are left. A table that ends after the bytes has one more item, the error `Image` with `Short`. It
/// is over after an error.
#[derive(Clone, Copy)]
pub struct GuardTable<'a> {
    count: u64,
    flag_size: u32,
    left: Option<&'a [u8]>,
}

impl<'a> GuardTable<'a> {
    /// The table at the start of these bytes with this many entries, which have `flag_size` bytes of flags each.
    pub fn new(bytes: &'a [u8], count: u64, flag_size: u32) -> GuardTable<'a>
        ensures left { guarded_left result ≡ Some (count, bytes.entry.now) }
        ensures flags { flag_size_of result ≡ flag_size }
    {
        GuardTable {
            count,
            flag_size,
            left: Some(bytes),
        }
    }

    /// The table at a virtual address with this many entries, which have `flag_size` bytes of flags each. Errors, in order:
    /// `VaBelowBase`; `Image` with `Unmapped`.
    #[tactic(auto, unfolding(crate::specs::GuardTables::guard_table))]
    fn parse(
        image: &ImageBytes<'a>,
        va: Option<u64>,
        count: Option<u64>,
        flag_size: u8,
    ) -> Result<GuardTable<'a>>
        ensures left { DirectoryReturns guarded_left result (guard_table (image_view image.now) va count) }
        ensures flags { IfOk result (λ t. flag_size_of t ≡ flag_size) }
    {
        let va = va.unwrap_or(0);
        let count = count.unwrap_or(0);
        let mut table = GuardTable {
            count,
            flag_size: u32::from(flag_size),
            left: None,
        };
        if va != 0 && count != 0 {
            table.left = Some(image.table_at_va(va)?);
        }
        Ok(table)
    }

    /// The bytes that are left: the next entry is at their start. Empty if the walk is over.
    pub fn rest(&self) -> &'a [u8]
        ensures { result.now ≡ rest_of (option_map (λ s. s.1) (guarded_left self.now)) }
    {
        self.left.unwrap_or_default()
    }
}

impl<'a> Iterator for GuardTable<'a> {
    type Item = Result<GuardEntry<'a>>;

    ghost next_gives = { λ s r t. Steps guarded_view
        (first_guarded (flag_size_of s)) (guarded_left s) r (guarded_left t)
        × (flag_size_of t ≡ flag_size_of s) };

    ghost remaining = { λ s. at_most (most_guarded (guarded_left s)) };

    #[tactic(auto, unfolding(crate::specs::GuardTables::first_guarded))]
    fn next(&mut self) -> Option<Result<GuardEntry<'a>>> {
        let bytes = self.left?;
        self.left = None;
        if self.count == 0 {
            return None;
        }
        let size = SIZE_OF_RVA + self.flag_size as usize;
        if let Err(error) = require_bytes(bytes, 0, size) {
            return Some(Err(DirectoryError::Image(error)));
        }
        self.count -= 1;
        self.left = Some(&bytes[size..]);
        Some(Ok(GuardEntry {
            rva: read_u32(bytes, 0),
            flags: &bytes[SIZE_OF_RVA..size],
        }))
    }
}

// Each of these calls has the errors `VaBelowBase` and `Image` with `Unmapped`, in this order. A table whose address or number
// of entries is 0 or absent has no entries.
impl LoadConfig {
    /// How many bytes of flags an entry of a table has: bits 28 to 31 of the guard flags.
    pub fn flag_size(&self) -> u8
        ensures { result ≡ flag_size self.now }
    {
        (self.guard_flags.unwrap_or(0) / (1 << 28)) as u8
    }

    /// The functions that may be called indirectly (`GuardCFFunctionTable`).
    pub fn guard_cf_functions<'a>(&self, image: &ImageBytes<'a>) -> Result<GuardTable<'a>>
        ensures left { DirectoryReturns guarded_left result (guard_table (image_view image.now)
            self.now.guard_cf_function_table self.now.guard_cf_function_count) }
        ensures flags { IfOk result (λ t. flag_size_of t ≡ flag_size self.now) }
    {
        let (table, count) = (self.guard_cf_function_table, self.guard_cf_function_count);
        GuardTable::parse(image, table, count, self.flag_size())
    }

    /// The exception handlers of an x86 image (`SEHandlerTable`), which have no flags.
    pub fn se_handlers<'a>(&self, image: &ImageBytes<'a>) -> Result<GuardTable<'a>>
        ensures left { DirectoryReturns guarded_left result (guard_table (image_view image.now)
            self.now.se_handler_table self.now.se_handler_count) }
        ensures flags { IfOk result (λ t. flag_size_of t ≡ 0) }
    {
        GuardTable::parse(image, self.se_handler_table, self.se_handler_count, 0)
    }

    /// The entries of the import address table whose address is taken (`GuardAddressTakenIatEntryTable`).
    pub fn address_taken_iat_entries<'a>(&self, image: &ImageBytes<'a>) -> Result<GuardTable<'a>>
        ensures left { DirectoryReturns guarded_left result (guard_table (image_view image.now)
            self.now.guard_tables.address_taken_iat_entry_table
            self.now.guard_tables.address_taken_iat_entry_count) }
        ensures flags { IfOk result (λ t. flag_size_of t ≡ flag_size self.now) }
    {
        let tables = self.guard_tables;
        let table = tables.address_taken_iat_entry_table;
        let count = tables.address_taken_iat_entry_count;
        GuardTable::parse(image, table, count, self.flag_size())
    }

    /// The targets of `longjmp` (`GuardLongJumpTargetTable`).
    pub fn long_jump_targets<'a>(&self, image: &ImageBytes<'a>) -> Result<GuardTable<'a>>
        ensures left { DirectoryReturns guarded_left result (guard_table (image_view image.now)
            self.now.guard_tables.long_jump_target_table
            self.now.guard_tables.long_jump_target_count) }
        ensures flags { IfOk result (λ t. flag_size_of t ≡ flag_size self.now) }
    {
        let tables = self.guard_tables;
        let (table, count) = (tables.long_jump_target_table, tables.long_jump_target_count);
        GuardTable::parse(image, table, count, self.flag_size())
    }

    /// Where execution goes on after exceptions (`GuardEHContinuationTable`).
    pub fn eh_continuations<'a>(&self, image: &ImageBytes<'a>) -> Result<GuardTable<'a>>
        ensures left { DirectoryReturns guarded_left result (guard_table (image_view image.now)
            self.now.guard_tables.eh_continuation_table
            self.now.guard_tables.eh_continuation_count) }
        ensures flags { IfOk result (λ t. flag_size_of t ≡ flag_size self.now) }
    {
        let tables = self.guard_tables;
        let (table, count) = (tables.eh_continuation_table, tables.eh_continuation_count);
        GuardTable::parse(image, table, count, self.flag_size())
    }
}
