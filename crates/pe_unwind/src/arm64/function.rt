//! The ARM64 function table (`.pdata`): entries of 8 bytes, each the start RVA of a function and its unwind data.
//! These are packed into the entry, or the RVA of an unwind record. A caller tests `is_packed`, then reads the packed
//! fields or the record. See
//! [ARM64 exception handling](https://learn.microsoft.com/cpp/build/arm64-exception-handling).

ghost use Rattle.std.specs.Prelude.{◌≡◌, ◌+◌, ◌*◌, ◌<◌, ◌≤◌, ◌==◌, length};
ghost use Rattle.std.proofs.Common.{arith};
ghost use Rattle.pe_core.specs.Refusals.{Returns};
ghost use Rattle.pe_unwind.specs.Arm64Words.{bits};
ghost use Rattle.pe_unwind.specs.Arm64Functions.{is_packed, arm64_function_of, arm64_function_at};
ghost use Rattle.pe_unwind.specs.EntriesAfter.{arm64_functions_after};

use super::words::bits;
use pe_core::{Error, Reason, Result, TableEntries, TableEntry, read_u32};

/// The `flag` of an entry whose unwind data are the RVA of an unwind record.
pub const ARM64_PDATA_REF_TO_FULL_XDATA: u32 = 0;

/// The `flag` of an entry with the packed unwind data of a function.
pub const ARM64_PDATA_PACKED_UNWIND_FUNCTION: u32 = 1;

/// The `flag` of an entry with the packed unwind data of a part of a function, which has no prolog.
pub const ARM64_PDATA_PACKED_UNWIND_FRAGMENT: u32 = 2;

/// `cr`: no frame chain, and the link register is not saved.
pub const ARM64_PDATA_CR_UNCHAINED: u32 = 0;

/// `cr`: no frame chain; the link register is saved.
pub const ARM64_PDATA_CR_UNCHAINED_SAVED_LR: u32 = 1;

/// `cr`: a frame chain, with a signed return address.
pub const ARM64_PDATA_CR_CHAINED_WITH_PAC: u32 = 2;

/// `cr`: a frame chain.
pub const ARM64_PDATA_CR_CHAINED: u32 = 3;

/// The size of an entry in bytes.
pub(crate) const SIZE_OF_ARM64_FUNCTION: usize = 8;

/// An entry of the ARM64 function table: the start of a function, and how its frame is unwound.
#[repr(C)]
#[derive(Clone, Copy, Debug, Default, PartialEq)]
pub struct Arm64RuntimeFunction {
    /// The start: RVA of the first byte.
    pub begin_address: u32,
    /// The RVA of the unwind record or, by the two lowest bits, the packed unwind data themselves. Read it by the
    /// methods.
    pub unwind_data: u32,
}

impl Arm64RuntimeFunction {
    /// The two lowest bits of the unwind data: `ARM64_PDATA_REF_TO_FULL_XDATA` (0) if the rest is the RVA of an unwind
    /// record, `ARM64_PDATA_PACKED_UNWIND_FUNCTION` (1) if it is packed data of a whole function,
    /// `ARM64_PDATA_PACKED_UNWIND_FRAGMENT` (2) if it is packed data of a part that has no prolog. 3 is reserved.
    pub fn flag(&self) -> u32
        ensures { result ≡ bits self.now.unwind_data 0 2 }
    {
        bits(self.unwind_data, 0, 2)
    }

    /// Packed data: the length of the function in bytes.
    pub fn function_length(&self) -> u32
        ensures { result ≡ 4 * bits self.now.unwind_data 2 11 }
    {
        bits(self.unwind_data, 2, 11) * 4
    }

    /// Packed data: how many floating-point registers are saved, from d8 on, minus one; 0 if none is saved (RegF).
    pub fn reg_f(&self) -> u32
        ensures { result ≡ bits self.now.unwind_data 13 3 }
    {
        bits(self.unwind_data, 13, 3)
    }

    /// Packed data: how many integer registers are saved, from x19 on (RegI).
    pub fn reg_i(&self) -> u32
        ensures { result ≡ bits self.now.unwind_data 16 4 }
    {
        bits(self.unwind_data, 16, 4)
    }

    /// Packed data: whether the prolog stores the parameter registers x0 to x7 (H).
    pub fn h(&self) -> bool
        ensures { result ≡ (bits self.now.unwind_data 20 1 == 1) }
    {
        bits(self.unwind_data, 20, 1) == 1
    }

    /// Packed data: whether the function sets up a frame chain, and how it returns (CR): `ARM64_PDATA_CR_UNCHAINED`
    /// (0), `ARM64_PDATA_CR_UNCHAINED_SAVED_LR` (1), unchained with the link register saved,
    /// `ARM64_PDATA_CR_CHAINED_WITH_PAC` (2), chained with a signed return address, or `ARM64_PDATA_CR_CHAINED` (3).
    pub fn cr(&self) -> u32
        ensures { result ≡ bits self.now.unwind_data 21 2 }
    {
        bits(self.unwind_data, 21, 2)
    }

    /// Packed data: the size of the frame on the stack in bytes.
    pub fn frame_size(&self) -> u32
        ensures { result ≡ 16 * bits self.now.unwind_data 23 9 }
    {
        bits(self.unwind_data, 23, 9) * 16
    }

    /// Whether the unwind data are packed into the entry: any `flag` but 0.
    pub fn is_packed(&self) -> bool
        ensures { result ≡ is_packed self.now }
    {
        self.flag() != ARM64_PDATA_REF_TO_FULL_XDATA
    }

    /// Data that are not packed: the RVA of the unwind record, which is the unwind data with the two lowest bits 0.
    pub fn unwind_data_rva(&self) -> u32
        ensures { result ≡ 4 * bits self.now.unwind_data 2 30 }
    {
        bits(self.unwind_data, 2, 30) * 4
    }
}

impl TableEntry for Arm64RuntimeFunction {
    ghost SIZE = { 8 };

    ghost entry_at = { arm64_function_at };

    const SIZE: usize = SIZE_OF_ARM64_FUNCTION;

    const ITERATOR: &'static str = "Arm64RuntimeFunctionIterator";

    fn at(bytes: &[u8], offset: usize) -> Arm64RuntimeFunction {
        Arm64RuntimeFunction {
            begin_address: read_u32(bytes, offset),
            unwind_data: read_u32(bytes, offset + 4),
        }
    }

    ghost has_bytes = { omega arith };

    ghost reads_after = { arm64_functions_after };
}

impl Arm64RuntimeFunction {
    /// The entry of a table with this index, which counts entries. Errors: `FunctionIndex` unless the table has more
    /// whole entries than that.
    pub fn of_table(table: &[u8], index: usize) -> Result<Arm64RuntimeFunction>
        ensures { Returns result (arm64_function_of table.now index) }
    {
        if index < table.len() / SIZE_OF_ARM64_FUNCTION {
            Ok(Arm64RuntimeFunction::at(table, SIZE_OF_ARM64_FUNCTION * index))
        } else {
            Err(Error::Malformed(Reason::FunctionIndex(index)))
        }
    }
}

/// The entries that are left of an ARM64 function table, 8 bytes each. A truncated last entry is one item, `Short`.
pub type Arm64RuntimeFunctionIterator<'a> = TableEntries<'a, Arm64RuntimeFunction>;
