//! The key by which an image names its PDB, as its [CodeView
//! record](https://learn.microsoft.com/windows/win32/debug/pe-format#debug-type) has it, and as a symbol server files the PDB.

ghost use Rattle.std.specs.Prelude.{◌≡◌, ◌↔◌, IsTrue};
ghost use Rattle.pe_pdb.specs.Keys.{key_of};

use crate::dbi::DbiHeader;
use crate::info::PdbInfo;

/// What an image and its PDB have in common.
#[repr(C)]
#[derive(Clone, Copy)]
pub struct PdbKey {
    /// The GUID, as it stands in memory.
    pub guid: [u8; 16],
    /// The age.
    pub age: u32,
}

impl PdbKey {
    /// The key of a PDB: the GUID of its info stream, and the age of its DBI stream.
    pub fn of(info: &PdbInfo, dbi: &DbiHeader) -> PdbKey
        ensures { result ≡ key_of info.now dbi.now }
    {
        PdbKey {
            guid: info.guid,
            age: dbi.age,
        }
    }

    /// Whether the PDB with this key is that of an image with the other one.
    pub fn matches(&self, image: &PdbKey) -> bool
        ensures { IsTrue result ↔ self.now ≡ image.now }
    {
        self.guid == image.guid && self.age == image.age
    }
}
