//! Laws of ARM64: lookup, unwind codes, their streams, and unwind records.

ghost use Rattle.std.specs.Prelude.{◌≡◌, ◌+◌, ◌-◌, ◌/◌, ◌<◌, ◌≤◌, ◌↔◌, ◌⊎◌, ℕ, All, Contains, List, length, drop, Option, Some, Result, Ok, IfSome, map};
ghost use Rattle.std.specs.Iterator.{Drains};
ghost use Rattle.pe_core.specs.Bytes.{AreBytes};
ghost use Rattle.pe_core.specs.declared.error.Error.{Error};
ghost use Rattle.pe_unwind.specs.declared.arm64.codes.Arm64UnwindCode.{Arm64UnwindCode};
ghost use Rattle.pe_unwind.specs.declared.arm64.codes.Arm64UnwindCodeData.{Arm64UnwindCodeData};
ghost use Rattle.pe_unwind.specs.declared.arm64.codes.Arm64UnwindCodeIterator.{Arm64UnwindCodeIterator};
ghost use Rattle.pe_unwind.specs.declared.arm64.function.Arm64RuntimeFunction.{Arm64RuntimeFunction};
ghost use Rattle.pe_unwind.specs.Arm64Encoding.{encoding, Legal, StartsWithArm64Code, StartsWithNoArm64Code, IsTruncatedArm64Code};
ghost use Rattle.pe_unwind.specs.Arm64Lookup.{CoversArm64, FindsArm64, NoFunctionPassesNext};
ghost use Rattle.pe_unwind.specs.Arm64Tiling.{Tiles, Joins, stream_offset};
ghost use Rattle.pe_unwind.specs.Arm64Record.{Arm64InfoView, AreRecord, HasWords, info_at, record_size, size_at};
ghost use Rattle.pe_core.specs.Refusals.{Refusal, answer_of};
ghost use Rattle.pe_unwind.specs.Lookup.{IsSortedBy};
ghost use Rattle.pe_unwind.specs.Offsets.{Arm64PartsStand};

use crate::arm64::codes::Arm64UnwindCodeIterator;
use crate::arm64::function::{
    ARM64_PDATA_CR_CHAINED, ARM64_PDATA_CR_CHAINED_WITH_PAC, ARM64_PDATA_CR_UNCHAINED,
    ARM64_PDATA_CR_UNCHAINED_SAVED_LR, ARM64_PDATA_PACKED_UNWIND_FRAGMENT,
    ARM64_PDATA_PACKED_UNWIND_FUNCTION, ARM64_PDATA_REF_TO_FULL_XDATA,
};

/// In a table that is sorted by start RVA and in which no function passes the start of the next, lookup finds an entry
/// exactly if the entry covers the RVA: so it finds the one that does, and none without one.
pub fn arm64_functions_found()
    ensures { (length_of : Arm64RuntimeFunction → Result ℕ Refusal)
        (fs : List Arm64RuntimeFunction) (a : ℕ) (answer : Result (Option Arm64RuntimeFunction) Refusal)
        (f : Arm64RuntimeFunction) → IsSortedBy (λ e. e.begin_address) fs →
        NoFunctionPassesNext length_of fs → FindsArm64 length_of fs a answer →
        ((answer ≡ Ok (Some f)) ↔ (Contains fs f × CoversArm64 length_of a f)) }
{}

/// Legal ARM64 codes are equal exactly if their bytes are. Each has 1 to 5 bytes. Bytes start with at most one code.
/// Nonempty bytes start with none exactly if they are a truncated code.
pub fn arm64_codes_and_bytes()
    ensures equal { (c d : Arm64UnwindCode) →
        Legal c → Legal d → ((c ≡ d) ↔ (encoding c ≡ encoding d)) }
    ensures sizes { (c : Arm64UnwindCode) →
        Legal c → (1 ≤ length (encoding c)) × (length (encoding c) ≤ 5) }
    ensures bytes { (c : Arm64UnwindCode) → Legal c → All (λ x. x < 256) (encoding c) }
    ensures one { (b : List ℕ) (c d : Arm64UnwindCode) →
        StartsWithArm64Code b c → StartsWithArm64Code b d → c ≡ d }
    ensures cut { (b : List ℕ) → IsTruncatedArm64Code b → StartsWithNoArm64Code b }
    ensures every { (b : List ℕ) → 0 < length b → All (λ x. x < 256) b →
        ((c : Arm64UnwindCode) × StartsWithArm64Code b c) ⊎ IsTruncatedArm64Code b }
{}

/// The items that an iterator of ARM64 codes returns tile its stream from the iterator's offset on. Every byte string
/// has a tiling from each offset on, and only one, up to the numbers in an error. A tiling is the bytes of all its
/// codes, one after the other, and then a rest that starts with no code; if the rest is not empty, an `Arm64Cut`
/// stands for it. There is at least one item for each five bytes, and at most one for each byte.
pub fn one_tiling_of_arm64_codes()
    ensures whole { (s : Arm64UnwindCodeIterator) (xs : List (Result Arm64UnwindCodeData Error)) →
        Drains ⟦<Arm64UnwindCodeIterator<'static> as Iterator>⟧.next_gives s xs →
        Tiles (stream_offset s).content (stream_offset s).at xs }
    ensures exists { (b : List ℕ) (at : ℕ) →
        All (λ x. x < 256) b → (xs : List (Result Arm64UnwindCodeData Error)) × Tiles b at xs }
    ensures tiling { (b : List ℕ) (at : ℕ) (xs ys : List (Result Arm64UnwindCodeData Error)) →
        Tiles b at xs → Tiles b at ys → map answer_of xs ≡ map answer_of ys }
    ensures joined { (b : List ℕ) (at : ℕ) (xs : List (Result Arm64UnwindCodeData Error)) →
        Tiles b at xs → Joins (drop at b) xs }
    ensures counts { (b : List ℕ) (at : ℕ) (xs : List (Result Arm64UnwindCodeData Error)) →
        All (λ x. x < 256) b →
        Tiles b at xs → ((length b - at + 4) / 5 ≤ length xs) × (length xs ≤ length b - at) }
{}

/// An ARM64 unwind record that is read is the concatenation of its parts: header, extension word, scopes, codes, RVA
/// of the handler, rest. Bytes that are such a concatenation are read as that record.
pub fn arm64_records_are_concatenations()
    ensures given { (b : List ℕ) (p : ℕ) (i : Arm64InfoView) → AreBytes b → info_at b p ≡ Ok i →
        AreRecord (drop p b) i (drop (p + record_size i.header i.extension) b) }
    ensures read { (b rest : List ℕ) (p : ℕ) (i : Arm64InfoView) →
        AreRecord (drop p b) i rest → HasWords i → info_at b p ≡ Ok i }
{}

/// Where an ARM64 unwind record is read, `size` returns its size, which is that of its words. The record ends in the
/// bytes, and a handler's data are all bytes after it.
#[tactic(auto, using(crate::proofs::Arm64Records::sized, crate::proofs::Arm64Records::inside, crate::proofs::Arm64Records::after_record))]
pub fn arm64_records_have_their_size()
    ensures size { (b : List ℕ) (i : Arm64InfoView) →
        info_at b 0 ≡ Ok i → size_at b ≡ Ok (record_size i.header i.extension) }
    ensures inside { (b : List ℕ) (p : ℕ) (i : Arm64InfoView) →
        info_at b p ≡ Ok i → p + record_size i.header i.extension ≤ length b }
    ensures handler { (b : List ℕ) (p : ℕ) (i : Arm64InfoView) → info_at b p ≡ Ok i →
        IfSome i.handler (λ h. h.bytes ≡ drop (p + record_size i.header i.extension) b) }
{}

/// The scopes of an ARM64 unwind record follow its header and extension word, its codes follow the scopes, and its
/// handler's data are the last of the bytes.
pub fn parts_of_arm64_records_stand()
    ensures { (b : List ℕ) (p : ℕ) (i : Arm64InfoView) →
        info_at b p ≡ Ok i → Arm64PartsStand b p i }
{}

/// The values of the constants for packed unwind data.
pub fn packed_data_constants()
    ensures full { ARM64_PDATA_REF_TO_FULL_XDATA ≡ 0 }
    ensures function { ARM64_PDATA_PACKED_UNWIND_FUNCTION ≡ 1 }
    ensures fragment { ARM64_PDATA_PACKED_UNWIND_FRAGMENT ≡ 2 }
    ensures unchained { ARM64_PDATA_CR_UNCHAINED ≡ 0 }
    ensures saved { ARM64_PDATA_CR_UNCHAINED_SAVED_LR ≡ 1 }
    ensures signed { ARM64_PDATA_CR_CHAINED_WITH_PAC ≡ 2 }
    ensures chained { ARM64_PDATA_CR_CHAINED ≡ 3 }
{}
