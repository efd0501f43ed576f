//! Laws of debug data: a record is read by itself, and where calls return a part of it, that is the part.

ghost use Rattle.calls_headers.specs.Debug.{characteristics_of, checksum_of, embedded_of, features_of, key_of, pdb20_of, pogo_of, repro_of};
ghost use Rattle.pe_c.specs.DebugLaws.{ReadsItsBytes, ReportsPart, ReturnsRecord, StandsAlone, by_kind, by_length, by_signature, by_size};
ghost use Rattle.pe_records.specs.DebugRecords as records;
ghost use Rattle.pe_records.specs.ManagedDebug as managed;
ghost use Rattle.pe_records.specs.Parts.{hash_of};
ghost use Rattle.std.specs.Option.{option_map};
ghost use Rattle.std.specs.Prelude.{Some};

/// An error in one part of the debug data does not affect another: what a call returns of the first entry of a type is the
/// same for any other bytes of as many, as long as the entries of the table are the same but for those of other types, and
/// the bytes of the entry's record are the same.
#[tactic(auto, using(crate::proofs::DebugAlone::key_alone, crate::proofs::DebugAlone::pdb20_alone, crate::proofs::DebugAlone::features_alone, crate::proofs::DebugAlone::characteristics_alone, crate::proofs::DebugAlone::repro_alone, crate::proofs::DebugAlone::pogo_alone))]
pub fn debug_records_stand_alone()
    ensures key { StandsAlone 2 key_of by_size }
    ensures pdb20 { StandsAlone 2 pdb20_of by_size }
    ensures features { StandsAlone 12 features_of (by_kind 20) }
    ensures characteristics { StandsAlone 20 characteristics_of (by_kind 4) }
    ensures repro { StandsAlone 16 repro_of by_length }
    ensures pogo { StandsAlone 13 pogo_of by_signature }
{}

/// What is read of an entry that a caller has depends on the bytes of its record alone.
#[tactic(auto, using(crate::proofs::DebugAlone::key_reads, crate::proofs::DebugAlone::pdb20_reads, crate::proofs::DebugAlone::features_reads, crate::proofs::DebugAlone::characteristics_reads, crate::proofs::DebugAlone::repro_reads, crate::proofs::DebugAlone::pogo_reads, crate::proofs::DebugAlone::embedded_reads, crate::proofs::DebugAlone::checksum_reads))]
pub fn debug_records_are_read_of_their_bytes()
    ensures key { ReadsItsBytes key_of by_size }
    ensures pdb20 { ReadsItsBytes pdb20_of by_size }
    ensures features { ReadsItsBytes features_of (by_kind 20) }
    ensures characteristics { ReadsItsBytes characteristics_of (by_kind 4) }
    ensures repro { ReadsItsBytes repro_of by_length }
    ensures pogo { ReadsItsBytes pogo_of by_signature }
    ensures embedded { ReadsItsBytes embedded_of by_size }
    ensures checksum { ReadsItsBytes checksum_of by_size }
{}

/// The ranges that calls return of debug records lie in the bytes, and are the file names, the hash, the POGO entries, the
/// compressed PDB, the algorithm and the checksum that the records have.
#[tactic(auto, using(crate::proofs::DebugParts::key_reports, crate::proofs::DebugParts::pdb20_reports, crate::proofs::DebugParts::repro_reports, crate::proofs::DebugParts::pogo_reports, crate::proofs::DebugParts::embedded_reports, crate::proofs::DebugParts::algorithm_reports, crate::proofs::DebugParts::checksum_reports))]
pub fn ranges_of_debug_records_are_their_parts()
    ensures key { ReportsPart (λ o b e. records.pdb70_of o b e) key_of (λ y. y.name)
        (λ x. option_map (λ r. r.filename) x) }
    ensures pdb20 { ReportsPart (λ o b e. records.pdb20_of o b e) pdb20_of (λ y. y.name)
        (λ x. option_map (λ r. r.filename) x) }
    ensures repro { ReportsPart (λ o b e. records.repro_of o b e) repro_of (λ y. y.hash)
        (λ x. hash_of (Some x)) }
    ensures pogo { ReportsPart (λ o b e. records.pogo_of o b e) pogo_of (λ y. y.entries)
        (λ x. option_map (λ r. r.bytes) x) }
    ensures embedded { ReportsPart (λ o b e. managed.embedded_of o b e) embedded_of
        (λ y. y.compressed) (λ x. Some x.compressed) }
    ensures algorithm { ReportsPart (λ o b e. managed.checksum_of o b e) checksum_of
        (λ y. y.algorithm) (λ x. Some x.algorithm) }
    ensures checksum { ReportsPart (λ o b e. managed.checksum_of o b e) checksum_of
        (λ y. y.checksum) (λ x. Some x.checksum) }
{}

/// Where the debug data of an image can be read as a whole, each record that they have is returned.
#[tactic(auto, using(crate::proofs::DebugParts::key_is_returned, crate::proofs::DebugParts::pdb20_is_returned, crate::proofs::DebugParts::features_is_returned, crate::proofs::DebugParts::characteristics_is_returned, crate::proofs::DebugParts::repro_is_returned, crate::proofs::DebugParts::pogo_is_returned))]
pub fn records_of_debug_data_are_returned()
    ensures key { ReturnsRecord 2 key_of (λ d. d.pdb70) }
    ensures pdb20 { ReturnsRecord 2 pdb20_of (λ d. d.pdb20) }
    ensures features { ReturnsRecord 12 features_of (λ d. d.features) }
    ensures characteristics { ReturnsRecord 20 characteristics_of (λ d. d.characteristics) }
    ensures repro { ReturnsRecord 16 repro_of (λ d. d.repro) }
    ensures pogo { ReturnsRecord 13 pogo_of (λ d. d.pogo) }
{}
