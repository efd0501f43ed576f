//! Lookup in the ARM64 function table. An entry has the start of its function, and its length is packed into the entry or
//! stands in the header of its unwind record, so lookup reads one record. A caller passes the table, the file and its
//! section map, or another map. See [ARM64 exception handling](https://learn.microsoft.com/cpp/build/arm64-exception-handling).

ghost use Rattle.std.specs.Option.{option_map};
ghost use Rattle.std.specs.Prelude.{◌≡◌, ℕ, ◌+◌, ◌≤◌, length};
ghost use Rattle.pe_core.specs.Refusals.{Returns, answer_of};
ghost use Rattle.pe_unwind.specs.Arm64Functions.{arm64_functions};
ghost use Rattle.pe_unwind.specs.Arm64Lookup.{FindsArm64, length_by};
ghost use Rattle.pe_unwind.specs.Arm64Unwinding.{record_offset_by};
ghost use Rattle.pe_unwind.specs.Lookup.{digits};

use super::function::Arm64RuntimeFunction;
use super::words::Arm64UnwindHeader;
use crate::lookup::{FunctionEntry, last_start};
use pe_core::{CountedTable, Result, RvaMap, u32_at};

impl FunctionEntry for Arm64RuntimeFunction {
    ghost start_of = { λ f. f.begin_address };

    fn start(&self) -> u32 {
        self.begin_address
    }
}

impl Arm64RuntimeFunction {
    /// The length of the function in bytes: from its packed data, or from the header of its unwind record, which the map, as
    /// a section map, finds. `bytes` is the whole file. The version of the record is not tested, since it is that of what follows the length.
    ///
    /// Errors: `Unmapped` if the RVA of the record is not mapped; `Short` if its header is truncated.
    pub fn length<R: RvaMap>(&self, bytes: &[u8], map: &R) -> Result<u32>
        ensures { Returns result (length_by (R.offset map.now) bytes.now self.now) }
    {
        if self.is_packed() {
            return Ok(self.function_length());
        }
        let offset = map.file_offset(self.unwind_data_rva())?;
        Ok(Arm64UnwindHeader(u32_at(bytes, offset)?).function_length())
    }

    /// The file offset of the unwind record of the function, by a map of RVAs. `None` if its unwind data are packed into the
    /// entry. Errors: `Unmapped`.
    pub fn record_offset<R: RvaMap>(&self, map: &R) -> Option<Result<usize>>
        ensures { option_map answer_of result ≡ record_offset_by (R.offset map.now) self.now }
    {
        if self.is_packed() {
            return None;
        }
        Some(map.file_offset(self.unwind_data_rva()))
    }
}

/// Returns the ARM64 entry that covers an RVA, by binary search of the entries. It reads at most as many of them as their
/// number has binary digits, which `table` counts, and at most one unwind record. `bytes` is the whole file.
///
/// It stops between two neighbouring entries, the first of which starts at or before the RVA and the second after it
/// (either may be missing), and returns the first if its function is long enough. A table sorted by start RVA has one such
/// position, so there it returns what a linear scan finds. In any other table which position it is depends on the search.
///
/// Errors, of the first entry's record alone: `Unmapped` if its RVA is not mapped; `Short` if its header is truncated.
#[tactic(auto, unfolding(crate::specs::Arm64Functions::arm64_functions), using(crate::proofs::Arm64Searches::finds_no_entry, crate::proofs::Arm64Searches::finds_refused, crate::proofs::Arm64Searches::finds_long_enough, crate::proofs::Arm64Searches::finds_too_short))]
pub fn search_arm64<R: RvaMap>(
    table: &mut CountedTable,
    rva: u32,
    bytes: &[u8],
    map: &R,
) -> Result<Option<Arm64RuntimeFunction>>
    ensures found { FindsArm64 (length_by (R.offset map.now) bytes.now)
        (arm64_functions table.old.content) rva (answer_of result) }
    ensures kept { table.new.content ≡ table.old.content }
    ensures counted { table.old.count ≤ table.new.count }
    ensures cost { table.new.count ≤ table.old.count + digits
        (length (arm64_functions table.old.content)) }
{
    let Some(function) = last_start::<Arm64RuntimeFunction>(table, rva) else {
        return Ok(None);
    };
    let length = function.length(bytes, map)?;
    // The function starts at or before the RVA, so the difference is not negative.
    if rva - function.begin_address < length {
        Ok(Some(function))
    } else {
        Ok(None)
    }
}
