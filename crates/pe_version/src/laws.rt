//! Laws over the definitions. Each is the contract of a function that does nothing.

ghost use Rattle.std.specs.Prelude.{◌≡◌, ◌++◌, List, ◌∷◌, Ok, Some, false, length, map, true, ℕ};
ghost use Rattle.std.specs.List.{list_all};
ghost use Rattle.std.specs.Option.{option_map};
ghost use Rattle.pe_resource.specs.VersionBlocks.{blocks, first_block};
ghost use Rattle.pe_version.specs.VersionRefusals.{block_of};
ghost use Rattle.pe_version.specs.WrittenBlocks.{AllFit, BlockValue, Fits, blocks_bytes, padded_block, read_block};
ghost use Rattle.pe_resource.specs.VersionFields.{VersionView, file_strings, value_named, version_in, version_key};
ghost use Rattle.pe_resource.specs.VersionStrings.{strings};
ghost use Rattle.pe_resource.specs.declared.version.VersionName.{VersionName};
ghost use Rattle.pe_resource.specs.declared.version.VsFixedFileInfo.{VsFixedFileInfo};
ghost use Rattle.pe_version.specs.VersionRecords.{string_fits, table_fits, value_at, version_at};
ghost use Rattle.pe_version.specs.declared.record.LanguageRecord.{LanguageRecord};
ghost use Rattle.pe_version.specs.declared.record.StringRecord.{StringRecord};
ghost use Rattle.pe_version.specs.declared.record.TableRecord.{TableRecord};
ghost use Rattle.pe_version.specs.VersionStrings.{flat, flat_blocks, padded, text_with_name, texts_of};
ghost use Rattle.pe_version.specs.VersionValues.{NumbersFit, Value, as_read, version_of, version_read};

/// pe_resource's walk reads a written block as it was given, and goes on with what follows it; blocks one after the other are
/// read each as it was given.
#[tactic(auto, using(crate::proofs::Blocks::first_read, crate::proofs::Blocks::blocks_read))]
pub fn written_blocks_are_read()
    ensures first { (k : BlockValue) (more : List ℕ) → Fits k →
        first_block (padded_block k ++ more) ≡ Some (Ok (read_block k), more) }
    ensures all { (ks : List BlockValue) → AllFit ks →
        blocks (blocks_bytes ks) ≡ map (λ k. Ok (read_block k)) ks }
{}

/// A block that is written fits, as `written_blocks_are_read` asks, and is the defined one.
#[tactic(auto, using(crate::proofs::Tests::made_fits, crate::proofs::Tests::made_is))]
pub fn blocks_are_accepted()
    ensures fits { (k : BlockValue) (s : List ℕ) → block_of k ≡ Ok s → Fits k }
    ensures value { (k : BlockValue) (s : List ℕ) → block_of k ≡ Ok s → s ≡ padded_block k }
{}

/// pe_resource's walks, down to texts and numbers, read written version information exactly as it was given: the fixed file
/// information, each string table with its language, its code page and all its strings, and the translations.
#[tactic(auto, using(crate::proofs::VersionsRead::version_is_read))]
pub fn written_versions_are_read()
    ensures { (v : Value) (s : List ℕ) → NumbersFit v → version_of v ≡ Ok s →
        version_read s ≡ Ok (Some (as_read v)) }
{}

/// `VersionInfo` of pe_resource, which reads the blocks one after the other, reads as its strings exactly the blocks of written version
/// information, each before those in it.
#[tactic(auto, using(crate::proofs::Flat::strings_are))]
pub fn written_versions_are_read_as_strings()
    ensures { (v : Value) (s : List ℕ) → version_of v ≡ Ok s →
        strings s ≡ map (λ k. Ok (flat k)) (flat_blocks v) }
{}

/// `VersionInfo` reads the fixed file information that was written, and for each of its twelve names the text of the first string with
/// that name, with zeros up to a multiple of four.
#[tactic(auto, using(crate::proofs::Named::version_is, crate::proofs::Named::text_is))]
pub fn written_texts_are_found()
    ensures whole { (v : Value) (s : List ℕ) → NumbersFit v → version_of v ≡ Ok s → version_in s
        ≡ Ok (record { fixed_info = Some v.fixed; strings = file_strings (map flat (flat_blocks v)) }) }
    ensures text { (v : Value) (s : List ℕ) (n : VersionName) (w : VersionView) → NumbersFit v → version_of v ≡ Ok s →
        version_in s ≡ Ok w → value_named n w.strings
        ≡ option_map padded (text_with_name (version_key n) (texts_of v)) }
{}

/// The test of records by their least bytes refuses nothing that would be written: of records whose ranges lie in their arrays it is
/// the version information of their value, where that is not refused.
#[tactic(auto, using(crate::proofs::LeastBlocks::short_enough))]
pub fn no_short_records_are_refused()
    ensures { (fixed : VsFixedFileInfo) (ts : List TableRecord) (rs : List StringRecord) (ps : List LanguageRecord)
        (d s : List ℕ) → list_all (string_fits d) rs ≡ true → list_all (table_fits (length rs)) ts ≡ true →
        version_of (value_at fixed ts rs ps d) ≡ Ok s → version_at fixed ts rs ps d ≡ Ok s }
{}
