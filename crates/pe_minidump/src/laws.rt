//! What the definitions that contracts cite say together.

ghost use Rattle.std.specs.Prelude.{◌≡◌, ℕ, ◌+◌, ◌<◌, ◌==◌, false, List, length, slice_index_or, IfOk, None, Some, Ok};
ghost use Rattle.pe_core.specs.Bytes.{AreBytes};
ghost use Rattle.pe_minidump.specs.AddressIndexes.{IsFirstWith, first_index, has_address};
ghost use Rattle.pe_minidump.specs.Contexts.{context_arm64, context_x64};
ghost use Rattle.pe_minidump.specs.Dumps.{DumpView, entry_at, entry_bytes, stream};
ghost use Rattle.pe_minidump.specs.Memory64.{piece64, size_of_piece};
ghost use Rattle.pe_minidump.specs.Registers.{AreArm64, AreX64};
ghost use Rattle.pe_minidump.specs.declared.address_index.AddressRange.{AddressRange};
ghost use Rattle.pe_minidump.specs.declared.dump.DirectoryEntry.{DirectoryEntry};

/// The stream of a kind is that of the first entry of the kind, also where others of the kind follow it. Where no entry is of a
/// kind there is none.
#[tactic(auto, using(crate::proofs::Streams::stream_of_first, crate::proofs::Streams::stream_of_none))]
pub fn streams_are_first()
    ensures first { (d : DumpView) (i : ℕ) (e : DirectoryEntry) → entry_at d i ≡ Some e →
        ((j : ℕ) (f : DirectoryEntry) → j < i → entry_at d j ≡ Some f → (f.stream_type == e.stream_type) ≡ false) →
        stream d e.stream_type ≡ entry_bytes d.bytes (Some e) }
    ensures none { (d : DumpView) (kind : ℕ) →
        ((j : ℕ) (f : DirectoryEntry) → entry_at d j ≡ Some f → (f.stream_type == kind) ≡ false) →
        stream d kind ≡ Ok None }
{}

/// The bytes of the first piece of a full dump stand where the list says, and those of each other one follow those of the piece
/// before it.
pub fn offsets_are_sums()
    ensures first { (file ranges : List ℕ) (base : ℕ) → (piece64 file ranges base 0).offset ≡ base }
    ensures next { (file ranges : List ℕ) (base i : ℕ) → (piece64 file ranges base (i + 1)).offset
        ≡ (piece64 file ranges base i).offset + size_of_piece ranges i }
{}

/// The registers that are read of a context are its bytes: written one after the other they are the bytes from the offset of the
/// first one on. XMM and vector registers are so where they were saved.
#[tactic(auto, using(crate::proofs::Registers::arm64_spelled, crate::proofs::Registers::x64_spelled))]
pub fn contexts_are_read()
    ensures x64 { (b : List ℕ) → AreBytes b → IfOk (context_x64 b) (AreX64 b) }
    ensures arm64 { (b : List ℕ) → AreBytes b → IfOk (context_arm64 b) (AreArm64 b) }
{}

/// What an `AddressIndex` finds is the first range in the order of the list that has the address; where it finds none, none has it.
/// So the module of an address is the first one that has it, and a byte of memory is that of the first piece that has it.
#[tactic(auto, using(crate::proofs::IndexFirsts::index_found, crate::proofs::IndexFirsts::index_none))]
pub fn index_is_list()
    ensures found { (ranges : List AddressRange) (x i : ℕ) → first_index 0 ranges x ≡ Some i → IsFirstWith x ranges i }
    ensures none { (ranges : List AddressRange) (x : ℕ) → first_index 0 ranges x ≡ None →
        (j : ℕ) (d : AddressRange) → j < length ranges → has_address x (slice_index_or ranges j d) ≡ false }
{}
