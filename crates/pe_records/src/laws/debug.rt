//! Laws of debug data.

ghost use Rattle.std.specs.Prelude.{◌≡◌, ◌+◌, ◌≤◌, ℕ, List, map, length, Option, Some, None, Result, Ok, Err};
ghost use Rattle.std.specs.Iterator.{Drains};
ghost use Rattle.pe_core.specs.Bytes.{AreBytes, range};
ghost use Rattle.pe_core.specs.Refusals.{Refusal};
ghost use Rattle.pe_core.specs.declared.data_directories.DataDirectory.{DataDirectory};
ghost use Rattle.pe_core.specs.declared.error.Error.{Error};
ghost use Rattle.pe_core.specs.declared.options.ParseMode.{ParseMode};
ghost use Rattle.pe_core.specs.declared.options.ParseOptions.{ParseOptions};
ghost use Rattle.pe_core.specs.declared.section_table.SectionTable.{SectionTable};
ghost use Rattle.pe_records.specs.declared.debug.ImageDebugDirectory.{ImageDebugDirectory};
ghost use Rattle.pe_records.specs.declared.debug.ImageDebugDirectoryIterator.{ImageDebugDirectoryIterator};
ghost use Rattle.pe_records.specs.declared.debug.pogo.POGOInfoEntry.{POGOInfoEntry};
ghost use Rattle.pe_records.specs.declared.debug.pogo.POGOEntryIterator.{POGOEntryIterator};
ghost use Rattle.pe_records.specs.DebugDirectory.{debug_entries, debug_entry_count, debug_bytes_left, fixup_of, debug_item};
ghost use Rattle.pe_records.specs.DebugRecords.{DebugFields, Pdb70, Pdb20, Pogo, pdb70_of, pdb20_of, debug_data, features_at, pdb70_record, pdb20_record, pogo_record, Repro, repro_record};
ghost use Rattle.pe_records.specs.DebugSpelling.{spell_pdb70, spell_pdb20, spell_features, spell_pogo, spell_repro, size_of_repro};
ghost use Rattle.pe_records.specs.Parts.{DebugPartsStand};
ghost use Rattle.pe_records.specs.Pogo.{Entry, Entries, pogo_bytes_left, stream_item_of};

use crate::debug::{ImageDebugDirectoryIterator, POGOEntryIterator};

/// The items that an iterator of debug entries returns are the entries of its bytes, as many as it reports. It is over
/// after an error and after `None`.
pub fn debug_iterators_give_the_entries()
    ensures items { (s : ImageDebugDirectoryIterator)
        (xs : List (Result ImageDebugDirectory Error)) →
        Drains ⟦<ImageDebugDirectoryIterator<'static> as Iterator>⟧.next_gives s xs →
        map debug_item xs ≡ debug_entries (fixup_of s) (debug_bytes_left s) }
    ensures number { (fixup : ℕ) (b : List ℕ) →
        length (debug_entries fixup b) ≡ debug_entry_count b }
    ensures refusal { (s t u : ImageDebugDirectoryIterator)
        (e : Error) (r : Option (Result ImageDebugDirectory Error)) →
        ⟦<ImageDebugDirectoryIterator<'static> as Iterator>⟧.next_gives s (Some (Err e)) t →
        ⟦<ImageDebugDirectoryIterator<'static> as Iterator>⟧.next_gives t r u → r ≡ None }
    ensures none { (s t u : ImageDebugDirectoryIterator)
        (r : Option (Result ImageDebugDirectory Error)) →
        ⟦<ImageDebugDirectoryIterator<'static> as Iterator>⟧.next_gives s None t →
        ⟦<ImageDebugDirectoryIterator<'static> as Iterator>⟧.next_gives t r u → r ≡ None }
{}

/// The items that an iterator of POGO entries returns are the entries of its bytes. Every byte string has a reading as
/// a stream of entries, and only one. The iterator is over after an error and after `None`.
pub fn pogo_streams_have_one_reading()
    ensures items { (s : POGOEntryIterator) (xs : List (Result POGOInfoEntry Error)) →
        Drains ⟦<POGOEntryIterator<'static> as Iterator>⟧.next_gives s xs →
        Entries (pogo_bytes_left s) (map stream_item_of xs) }
    ensures exists { (b : List ℕ) → (xs : List (Result Entry Refusal)) × Entries b xs }
    ensures once { (b : List ℕ) (xs ys : List (Result Entry Refusal)) →
        Entries b xs → Entries b ys → xs ≡ ys }
    ensures refusal { (s t u : POGOEntryIterator)
        (e : Error) (r : Option (Result POGOInfoEntry Error)) →
        ⟦<POGOEntryIterator<'static> as Iterator>⟧.next_gives s (Some (Err e)) t →
        ⟦<POGOEntryIterator<'static> as Iterator>⟧.next_gives t r u → r ≡ None }
    ensures none { (s t u : POGOEntryIterator) (r : Option (Result POGOInfoEntry Error)) →
        ⟦<POGOEntryIterator<'static> as Iterator>⟧.next_gives s None t →
        ⟦<POGOEntryIterator<'static> as Iterator>⟧.next_gives t r u → r ≡ None }
{}

/// Debug data and records that strict mode returns, permissive mode returns too.
#[tactic(auto, using(crate::proofs::DebugModes::strict_pdb70, crate::proofs::DebugModes::strict_pdb20, crate::proofs::DebugModes::strict_debug_data))]
pub fn strict_debug_data_is_permissive()
    ensures pdb70 { (o : ParseOptions) (b : List ℕ) (e : ImageDebugDirectory) (x : Option Pdb70) →
        pdb70_of (record o { parse_mode = ParseMode.Strict }) b e ≡ Ok x →
        pdb70_of (record o { parse_mode = ParseMode.Permissive }) b e ≡ Ok x }
    ensures pdb20 { (o : ParseOptions) (b : List ℕ) (e : ImageDebugDirectory) (x : Option Pdb20) →
        pdb20_of (record o { parse_mode = ParseMode.Strict }) b e ≡ Ok x →
        pdb20_of (record o { parse_mode = ParseMode.Permissive }) b e ≡ Ok x }
    ensures whole { (o : ParseOptions) (b : List ℕ) (d : DataDirectory)
        (sections : List SectionTable) (alignment fixup : ℕ) (x : DebugFields) → debug_data
        (record o { parse_mode = ParseMode.Strict }) b d sections alignment fixup ≡ Ok x →
        debug_data
        (record o { parse_mode = ParseMode.Permissive }) b d sections alignment fixup ≡ Ok x }
{}

/// A record that is read spells the bytes at its offset: as many as its entry says for CodeView and POGO, 20 for VC
/// feature, and as many as its own length says for Repro.
#[tactic(auto, using(crate::proofs::SpelledDebug::spelled_pdb70, crate::proofs::SpelledDebug::spelled_pdb20, crate::proofs::SpelledDebug::spelled_features, crate::proofs::SpelledDebug::spelled_pogo, crate::proofs::SpelledDebug::spelled_repro))]
pub fn debug_records_spell_their_bytes()
    ensures pdb70 { (mode : ParseMode) (b : List ℕ) (p size : ℕ) (r : Pdb70) →
        AreBytes b → pdb70_record mode b p size ≡ Ok (Some r) → spell_pdb70 r ≡ range b p size }
    ensures pdb20 { (mode : ParseMode) (b : List ℕ) (p size : ℕ) (r : Pdb20) →
        AreBytes b → pdb20_record mode b p size ≡ Ok (Some r) → spell_pdb20 r ≡ range b p size }
    ensures features { (b : List ℕ) (p : ℕ) →
        AreBytes b → p + 20 ≤ length b → spell_features (features_at b p) ≡ range b p 20 }
    ensures repro { (b : List ℕ) (p : ℕ) (e : ImageDebugDirectory) (r : Repro) →
        AreBytes b → repro_record b p e ≡ Ok r → spell_repro r ≡ range b p (size_of_repro r) }
    ensures pogo { (b : List ℕ) (p size : ℕ) (r : Pogo) →
        AreBytes b → pogo_record b p size ≡ Ok (Some r) → spell_pogo r ≡ range b p size }
{}

/// The file names, the hash and the POGO entries of debug data are ranges of the bytes. Each stands at a fixed
/// distance after the offset to which the first entry of its type leads.
pub fn parts_of_debug_data_stand_in_the_bytes()
    ensures { (o : ParseOptions) (b : List ℕ)
        (d : DataDirectory) (sections : List SectionTable) (alignment fixup : ℕ) (x : DebugFields) →
        debug_data o b d sections alignment fixup ≡ Ok x → DebugPartsStand o b x }
{}
