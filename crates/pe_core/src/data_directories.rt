//! The data directories: the last part of the optional header, where each entry has the RVA and the size of one table
//! of the image
//! ([layout](https://learn.microsoft.com/windows/win32/debug/pe-format#optional-header-data-directories-image-only)). A
//! caller takes an entry from `DataDirectories` and passes it to the reader of its table.

ghost use Rattle.std.specs.Prelude.{◌≡◌, ◌+◌, ◌*◌, ◌≤◌, length};
ghost use Rattle.pe_core.specs.Refusals.{Returns};
ghost use Rattle.pe_core.specs.Bytes.{record_at};

use crate::bytes::{read_u32, require_bytes};
use crate::error::Result;
use std::fmt;

/// The number of directories that a PE image has at most.
pub const MOST_DIRECTORIES: usize = 16;

// The indices of the directories, `IMAGE_DIRECTORY_ENTRY_*` of winnt.h. The last, 15, is reserved.
const EXPORT_TABLE: usize = 0;

const IMPORT_TABLE: usize = 1;

const RESOURCE_TABLE: usize = 2;

const EXCEPTION_TABLE: usize = 3;

const CERTIFICATE_TABLE: usize = 4;

const BASE_RELOCATION_TABLE: usize = 5;

const DEBUG_TABLE: usize = 6;

const ARCHITECTURE: usize = 7;

const GLOBAL_PTR: usize = 8;

const TLS_TABLE: usize = 9;

const LOAD_CONFIG_TABLE: usize = 10;

const BOUND_IMPORT_TABLE: usize = 11;

const IMPORT_ADDRESS_TABLE: usize = 12;

const DELAY_IMPORT_DESCRIPTOR: usize = 13;

const CLR_RUNTIME_HEADER: usize = 14;

/// A data directory (`IMAGE_DATA_DIRECTORY`), 8 bytes: where a table is, and its size.
#[repr(C)]
#[derive(Clone, Copy, Debug, PartialEq)]
pub struct DataDirectory {
    /// The RVA of the table. For the certificate table it is a file offset.
    pub virtual_address: u32,
    /// The size of the table in bytes.
    pub size: u32,
}

/// An entry of two zeros: the image has no such table.
const ABSENT: DataDirectory = DataDirectory {
    virtual_address: 0,
    size: 0,
};

impl DataDirectory {
    ghost use Rattle.pe_core.specs.Records.{data_directory};

    /// The directory at `offset`, whose 8 bytes the caller knows to lie in `bytes`.
    #[tactic(auto, unfolding(crate::specs::Records::data_directory))]
    pub(crate) fn at(bytes: &[u8], offset: usize) -> DataDirectory
        requires { offset + 8 ≤ length bytes.now }
        ensures { result ≡ data_directory bytes.now offset }
    {
        DataDirectory {
            virtual_address: read_u32(bytes, offset),
            size: read_u32(bytes, offset + 4),
        }
    }

    /// The directory at `offset`, 8 bytes. Error: `Short`.
    pub fn parse(bytes: &[u8], offset: usize) -> Result<DataDirectory>
        ensures { Returns result (record_at bytes.now offset 8 (data_directory bytes.now offset)) }
    {
        require_bytes(bytes, offset, 8)?;
        Ok(DataDirectory::at(bytes, offset))
    }
}

/// The directories of an optional header: as many as it counts, and at most 16. No call sees the entries after them,
/// `==` and `Debug` included.
#[derive(Clone, Copy)]
pub struct DataDirectories {
    rows: [DataDirectory; MOST_DIRECTORIES],
    count: usize,
    ghost at_most: { count ≤ 16 },
}

impl PartialEq for DataDirectories {
    ghost use Rattle.std.proofs.Common.{rules};
    ghost use Rattle.std.specs.Ordering.{on};
    ghost use Rattle.std.specs.Cmp.{on_per};
    ghost use Rattle.std.specs.Cmp.Lexicographic.{lists_per};
    ghost use Rattle.std.specs.Cmp.Rules.{comparing};
    ghost use lib.Pointwise.{pointwise};
    ghost use Rattle.pe_core.specs.Directories.{kept_rows};

    ghost eq = { on kept_rows (pointwise ⟦<DataDirectory as PartialEq>⟧.eq) };

    ghost laws = { on_per kept_rows (lists_per (Prim.search (comparing, rules))) };

    fn eq(&self, other: &DataDirectories) -> bool {
        self.rows() == other.rows()
    }
}

impl fmt::Debug for DataDirectories {
    fn fmt<W: fmt::Write>(&self, f: &mut fmt::Formatter<W>) -> fmt::Result {
        f.debug_list().entries(self.rows()).finish()
    }
}

impl DataDirectories {
    ghost use Rattle.std.specs.Prelude.{min, slice_get, slice_set};
    ghost use Rattle.pe_core.specs.Directories.{directories, kept, kept_rows, present};

    /// The directories at `offset`, where the header counts `count` of them. The caller knows those that are kept
    /// to lie in `bytes`.
    #[tactic(auto, using(std::proofs::lemmas::List::take_more_set), unfolding(crate::specs::Rows::each))]
    pub(crate) fn at(bytes: &[u8], offset: usize, count: u32) -> DataDirectories
        requires { offset + 8 * kept count ≤ length bytes.now }
        ensures { kept_rows result ≡ directories bytes.now offset count }
    {
        let count = count.min(16) as usize;
        let mut rows = [ABSENT; MOST_DIRECTORIES];
        for i in 0..count {
            rows[i] = DataDirectory::at(bytes, offset + 8 * i);
        }
        DataDirectories { rows, count }
    }

    /// The entries that are kept, absent ones included.
    pub fn rows(&self) -> &[DataDirectory]
        ensures { result.now ≡ kept_rows self.now }
    {
        &self.rows[..self.count]
    }

    /// The directory with this index. `None` if it is not kept, or if its RVA and size are both 0.
    pub fn get(&self, number: usize) -> Option<DataDirectory>
        ensures { result ≡ present (kept_rows self.now) number }
    {
        let row = *self.rows().get(number)?;
        if row.virtual_address == 0 && row.size == 0 {
            None
        } else {
            Some(row)
        }
    }

    /// Puts an entry in place of the one with this index, and returns that one. `None` if the index is not below the
    /// number of entries that are kept; then nothing changes. A writer of the image writes the new entry.
    pub fn set(&mut self, index: usize, directory: DataDirectory) -> Option<DataDirectory>
        ensures value { result ≡ slice_get (kept_rows self.old) index }
        ensures rows { kept_rows self.new ≡ slice_set (kept_rows self.old) index directory }
    {
        if index >= self.count {
            return None;
        }
        let row = self.rows[index];
        self.rows[index] = directory;
        Some(row)
    }

    /// The export directory, index 0: the exported functions.
    pub fn get_export_table(&self) -> Option<DataDirectory>
        ensures { result ≡ present (kept_rows self.now) 0 }
    {
        self.get(EXPORT_TABLE)
    }

    /// The import directory, index 1: the imported DLLs and functions.
    pub fn get_import_table(&self) -> Option<DataDirectory>
        ensures { result ≡ present (kept_rows self.now) 1 }
    {
        self.get(IMPORT_TABLE)
    }

    /// The resource directory, index 2: the root of the resource tree.
    pub fn get_resource_table(&self) -> Option<DataDirectory>
        ensures { result ≡ present (kept_rows self.now) 2 }
    {
        self.get(RESOURCE_TABLE)
    }

    /// The exception directory, index 3: the function table for unwinding.
    pub fn get_exception_table(&self) -> Option<DataDirectory>
        ensures { result ≡ present (kept_rows self.now) 3 }
    {
        self.get(EXCEPTION_TABLE)
    }

    /// The certificate directory, index 4: the attribute certificates. Its `virtual_address` is a file offset, not an
    /// RVA.
    pub fn get_certificate_table(&self) -> Option<DataDirectory>
        ensures { result ≡ present (kept_rows self.now) 4 }
    {
        self.get(CERTIFICATE_TABLE)
    }

    /// The base relocation directory, index 5: the RVAs to change if the image is not loaded at its image base.
    pub fn get_base_relocation_table(&self) -> Option<DataDirectory>
        ensures { result ≡ present (kept_rows self.now) 5 }
    {
        self.get(BASE_RELOCATION_TABLE)
    }

    /// The debug directory, index 6: the debug entries.
    pub fn get_debug_table(&self) -> Option<DataDirectory>
        ensures { result ≡ present (kept_rows self.now) 6 }
    {
        self.get(DEBUG_TABLE)
    }

    /// The architecture directory, index 7: data of the architecture.
    pub fn get_architecture(&self) -> Option<DataDirectory>
        ensures { result ≡ present (kept_rows self.now) 7 }
    {
        self.get(ARCHITECTURE)
    }

    /// The global pointer directory, index 8: the RVA of the value for the global pointer register.
    pub fn get_global_ptr(&self) -> Option<DataDirectory>
        ensures { result ≡ present (kept_rows self.now) 8 }
    {
        self.get(GLOBAL_PTR)
    }

    /// The TLS directory, index 9: thread-local storage.
    pub fn get_tls_table(&self) -> Option<DataDirectory>
        ensures { result ≡ present (kept_rows self.now) 9 }
    {
        self.get(TLS_TABLE)
    }

    /// The load config directory, index 10: the load configuration.
    pub fn get_load_config_table(&self) -> Option<DataDirectory>
        ensures { result ≡ present (kept_rows self.now) 10 }
    {
        self.get(LOAD_CONFIG_TABLE)
    }

    /// The bound import directory, index 11: the bound imports.
    pub fn get_bound_import_table(&self) -> Option<DataDirectory>
        ensures { result ≡ present (kept_rows self.now) 11 }
    {
        self.get(BOUND_IMPORT_TABLE)
    }

    /// The import address directory, index 12: the import address table.
    pub fn get_import_address_table(&self) -> Option<DataDirectory>
        ensures { result ≡ present (kept_rows self.now) 12 }
    {
        self.get(IMPORT_ADDRESS_TABLE)
    }

    /// The delay import directory, index 13: the delay-loaded imports.
    pub fn get_delay_import_descriptor(&self) -> Option<DataDirectory>
        ensures { result ≡ present (kept_rows self.now) 13 }
    {
        self.get(DELAY_IMPORT_DESCRIPTOR)
    }

    /// The CLR directory, index 14: the header of the .NET runtime.
    pub fn get_clr_runtime_header(&self) -> Option<DataDirectory>
        ensures { result ≡ present (kept_rows self.now) 14 }
    {
        self.get(CLR_RUNTIME_HEADER)
    }
}
