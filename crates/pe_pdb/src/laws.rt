//! What the definitions that contracts cite say together.

ghost use Rattle.std.specs.Prelude.{◌≡◌, ◌↔◌, ℕ, ◌+◌, ◌++◌, ◌∷◌, ◌-◌, ◌*◌, ◌/◌, ◌^◌, ◌<◌, ◌≤◌, [], length, map, nat_le, take, List, Ok, Option, Result, Some, if◌then◌else◌, true};
ghost use Rattle.std.specs.Int.{div_ceil};
ghost use Rattle.std.specs.List.{All, Contains};
ghost use Rattle.std.specs.List.Sorted.{IsNonDecreasingBy};
ghost use Rattle.std.specs.Option.{option_map, option_to_list};
ghost use Rattle.pe_core.specs.Offsets.{bytes_in};
ghost use Rattle.pe_core.specs.declared.byte_range.ByteRange.{ByteRange};
ghost use Rattle.pe_pdb.specs.Streams.{CopiesStream, HasBlocks, StreamView, block_bytes, contiguous_of, joined, stream_bytes};
ghost use Rattle.pe_pdb.specs.Annotations.{annotation_at, annotations};
ghost use Rattle.pe_pdb.specs.Frames.{FindsIn, HasStarts, ModuleParts, NoneHas, PdbParts, frames_at, frames_of, id_record, line_with, module_with, procedure_with, public_frame, symbol_before, unnamed, with_ids, with_lines, with_modules, with_names, without_file, without_source};
ghost use Rattle.pe_pdb.specs.Ids.{TypesView, record_by};
ghost use Rattle.pe_pdb.specs.InlineNests.{RowsHave, SitesNest};
ghost use Rattle.pe_pdb.specs.InlineSites.{frames_in, no_scopes};
ghost use Rattle.pe_pdb.specs.Keys.{key_of};
ghost use Rattle.pe_pdb.specs.Lines.{block_at, block_end, blocks, subsection_at, subsection_end, subsections};
ghost use Rattle.pe_pdb.specs.LineEntries.{module_lines};
ghost use Rattle.pe_pdb.specs.Lookups.{digits};
ghost use Rattle.pe_pdb.specs.LineIndexes.{IsLastBefore, LineAt, NoneStarts, is_line};
ghost use Rattle.pe_pdb.specs.Modules.{module_at, module_end, modules};
ghost use Rattle.pe_pdb.specs.Omap.{moved_by, moved_to, omap, omap_row};
ghost use Rattle.pe_pdb.specs.SectionHeaders.{rva_of, start_of};
ghost use Rattle.pe_pdb.specs.SymbolEntries.{HasEntry, addresses, rva_by};
ghost use Rattle.pe_pdb.specs.SymbolIndexes.{Covering, Nearest};
ghost use Rattle.pe_pdb.specs.Refusals.{PdbRefusal};
ghost use Rattle.pe_pdb.specs.Symbols.{Symbol, symbol_at, symbol_end, symbols};
ghost use Rattle.pe_pdb.specs.Walks.{with_end, with_more};
ghost use Rattle.pe_pdb.specs.WrittenAnnotations.{IsWritable, all_read, end_of_annotations, written, written_all};
ghost use Rattle.pe_pdb.specs.declared.annotation.Annotation.{Annotation};
ghost use Rattle.pe_pdb.specs.declared.dbi.DbiHeader.{DbiHeader};
ghost use Rattle.pe_pdb.specs.declared.error.PdbError.{PdbError};
ghost use Rattle.pe_pdb.specs.declared.info.PdbInfo.{PdbInfo};
ghost use Rattle.pe_pdb.specs.declared.key.PdbKey.{PdbKey};
ghost use Rattle.pe_pdb.specs.declared.line_entries.CodeLine.{CodeLine};
ghost use Rattle.pe_pdb.specs.declared.symbol_entries.SymbolClass.{SymbolClass};
ghost use Rattle.pe_pdb.specs.declared.symbol_entries.SymbolClass.TheVariants.{Procedures, PublicFunctions};
ghost use Rattle.pe_pdb.specs.declared.symbol_lookup.SymbolAddress.{SymbolAddress};

use crate::counted_entries::CountedEntries;
use crate::line_entries::LineEntry;
use crate::line_lookup::search_lines;
use crate::module_lookup::search_ranges;
use crate::symbol_lookup::search_symbols;
use pe_core::RangeEntry;

/// The bytes of a stream are those of its blocks, one block after the other, up to its size.
#[tactic(auto, using(crate::proofs::Joined::of_blocks))]
pub fn stream_is_its_blocks()
    ensures { (s : StreamView) → 0 < s.msf.words → HasBlocks s →
        stream_bytes s ≡ take s.size (joined (block_bytes s) (div_ceil s.size (4 * s.msf.words))) }
{}

/// Where a stream is contiguous, the range of the file that says so has its bytes.
#[tactic(auto, using(crate::proofs::Contiguous::of_range))]
pub fn contiguous_bytes_are_the_stream()
    ensures { (s : StreamView) (r : ByteRange) → 0 < s.msf.words → HasBlocks s → contiguous_of s ≡ Some r →
        bytes_in s.msf.bytes r ≡ stream_bytes s }
{}

/// Streams of the same bytes are read the same, wherever their blocks are: so is all that is read of these bytes.
#[tactic(auto, using(crate::proofs::Joined::copied_alike))]
pub fn scattering_is_unseen()
    ensures { (s t : StreamView) → stream_bytes s ≡ stream_bytes t →
        (o : ℕ) (old new : List ℕ) (answer : Result (Unit {0}) PdbError) → CopiesStream s o old new answer → CopiesStream t o old new answer }
{}

/// A PDB has the key of an image exactly if the GUID of its info stream and the age of its DBI stream are those of the key.
pub fn matches_is_key()
    ensures { (i : PdbInfo) (d : DbiHeader) (k : PdbKey) → (key_of i d ≡ k) ↔ ((i.guid ≡ k.guid) × (d.age ≡ k.age)) }
{}

/// The RVA at an offset in a section is the sum of the section's RVA and the offset, where there is such a section and the sum
/// has 32 bits.
pub fn rva_is_section_offset()
    ensures { (b : List ℕ) (section offset rva : ℕ) → (rva_of b section offset ≡ Some rva)
        ↔ ((0 < section) × (section ≤ length b / 40) × (rva ≡ start_of b section + offset) × (rva < 2 ^ 32)) }
{}

/// A walk is over where its bytes end. Before that it has what stands where it is, and then the walk from there on; so it has no
/// more records than its bytes have place for, and one error.
pub fn walks_end()
    ensures symbols { (b : List ℕ) (p : ℕ) → symbols b p ≡
        (if nat_le (length b) p then [] else with_more (symbols b) (with_end symbol_end (symbol_at b) p)) }
    ensures modules { (b : List ℕ) (p : ℕ) → modules b p ≡
        (if nat_le (length b) p then [] else with_more (modules b) (with_end module_end (module_at b) p)) }
    ensures subsections { (b : List ℕ) (p : ℕ) → subsections b p ≡
        (if nat_le (length b) p then [] else with_more (subsections b) (with_end subsection_end (subsection_at b) p)) }
    ensures blocks { (b : List ℕ) (p : ℕ) → blocks b p ≡
        (if nat_le (length b) p then [] else with_more (blocks b) (with_end block_end (block_at b) p)) }
    ensures few_symbols { (b : List ℕ) (p : ℕ) → 4 * length (symbols b p) ≤ (length b - p) + 3 }
    ensures few_modules { (b : List ℕ) (p : ℕ) → 64 * length (modules b p) ≤ (length b - p) + 63 }
{}

/// An index has the entries of the symbols that its records say, and no others.
pub fn entries_are_symbols()
    ensures { (class : SymbolClass) (b : List ℕ) (start : ℕ) (sections xs : List ℕ) → addresses class b start sections ≡ Ok xs →
        (a : ℕ) → Contains xs a ↔ HasEntry (rva_by class sections) (symbols b start) a }
{}

/// Entries have one nearest symbol.
#[tactic(auto, using(crate::proofs::NearestEntries::nearest_once))]
pub fn nearest_is_one()
    ensures { (xs : List ℕ) (rva : ℕ) (one other : Option SymbolAddress) → Nearest xs rva one → Nearest xs rva other → one ≡ other }
{}

/// Lines have one answer at an RVA. Between two rows nothing changes: the row that is the last one before an RVA is so at each
/// later one, as long as no row starts on the way.
pub fn rows_are_last_before()
    ensures one { (xs : List CodeLine) (rva : ℕ) (one other : Option CodeLine) →
        LineAt xs rva one → LineAt xs rva other → one ≡ other }
    ensures between { (xs : List CodeLine) (rva x i : ℕ) →
        IsLastBefore xs rva i → rva ≤ x → NoneStarts xs rva x → IsLastBefore xs x i }
    ensures covered { (xs : List CodeLine) (rva : ℕ) (line : CodeLine) → LineAt xs rva (Some line) →
        (line.rva ≤ rva) × (rva < line.rva + line.code_size) × (is_line line.line ≡ true) }
{}

/// Annotations of an inlined function are read as they are written: numbers of one, two and four bytes, whatever stands before
/// and after. So are many, one after the other, up to the end of their bytes or to the operation that ends them.
#[tactic(auto, using(crate::proofs::WrittenAnnotations::annotation_read, crate::proofs::WrittenAnnotations::list_read, crate::proofs::WrittenAnnotations::padded_read))]
pub fn annotations_are_written()
    ensures one { (a : Annotation) → IsWritable a → (before after : List ℕ) →
        annotation_at (before ++ (written a ++ after)) (length before) ≡ Ok (a, length before + length (written a)) }
    ensures list { (xs : List Annotation) → All IsWritable xs → (before : List ℕ) →
        annotations (before ++ written_all xs) (length before) ≡ all_read xs }
    ensures padded { (xs : List Annotation) → All IsWritable xs → (before after : List ℕ) →
        annotations (before ++ (written_all xs ++ (0 ∷ after))) (length before) ≡ all_read xs ++ (Ok end_of_annotations ∷ []) }
{}

/// The inlined functions that have an offset nest: each is a record within that of the one before, whose scope no record on the way
/// ends, and its row has the offset. So it is of every byte string; only a refusal may follow the last.
#[tactic(auto, using(crate::proofs::InlineNests::frames_have, crate::proofs::InlineNests::frames_nest))]
pub fn sites_nest()
    ensures nest { (x : ℕ) (records : List (Result Symbol PdbRefusal)) → SitesNest x 0 records (frames_in x no_scopes records) }
    ensures covered { (x : ℕ) (records : List (Result Symbol PdbRefusal)) → RowsHave x (frames_in x no_scopes records) }
{}

/// What lookups find by indexes is what is found by reading a list from its start, whatever its order: the last symbol at or before an RVA,
/// the procedure and the line that have it, and the record with an id. There is one such answer.
pub fn index_is_list()
    ensures symbols { (xs : List ℕ) (rva : ℕ) (found : Option SymbolAddress) → Nearest xs rva found ↔ (found ≡ symbol_before xs rva) }
    ensures procedures { (xs b : List ℕ) (rva : ℕ) (found : Option SymbolAddress) →
        Covering xs b rva found ↔ (found ≡ procedure_with xs b rva) }
    ensures lines { (xs : List CodeLine) (rva : ℕ) (found : Option CodeLine) → LineAt xs rva found ↔ (found ≡ line_with xs rva) }
    ensures ids { (t : TypesView) (starts : List ℕ) (id : ℕ) → HasStarts t starts → record_by t starts id ≡ id_record t id }
{}

/// A caller has the frames of an RVA who finds them so: `ModuleIndex::module_at` names its module; `covering` in an index of the
/// procedures of the module finds the procedure, and `line_at` in one of its lines the line; `inlined_at` the functions that are
/// inlined there, and `TypeRecords::get` their records. Where no procedure has the RVA, `nearest` in an index of the public functions
/// finds the one before it. Nothing is found in lists that are refused.
#[tactic(auto, using(crate::proofs::Frames::procedures_found, crate::proofs::Frames::publics_found))]
pub fn indexes_find_the_frames()
    ensures procedures { (p : PdbParts) (m : ModuleParts) (rva : ℕ) (starts : List ℕ) (a : SymbolAddress) (line : Option CodeLine) →
        module_with p rva ≡ Some m →
        FindsIn (λ xs found. Covering xs m.symbols rva found) (addresses Procedures m.symbols 4 p.sections) (Some a) →
        FindsIn (λ xs found. LineAt xs rva found) (module_lines p.sections m.lines) line → HasStarts p.ids starts →
        frames_at p rva ≡ frames_of (record_by p.ids starts) p.names m rva line a }
    ensures publics { (p : PdbParts) (rva : ℕ) (found : Option SymbolAddress) → NoneHas p rva (module_with p rva) →
        FindsIn (λ xs found. Nearest xs rva found) (addresses PublicFunctions p.publics 0 p.sections) found →
        frames_at p rva ≡ option_to_list (option_map (public_frame p.publics) found) }
{}

/// The frames of an RVA are of its module alone: other modules change nothing. The stream of ids changes how inlined functions are named,
/// and nothing else; the names of source files change these alone; and the lines of the module where in the source its functions are.
#[tactic(auto, using(crate::proofs::Frames::ids_alone, crate::proofs::Frames::lines_alone, crate::proofs::Frames::modules_alone, crate::proofs::Frames::names_alone))]
pub fn frames_of_module_alone()
    ensures modules { (p : PdbParts) (rva : ℕ) (modules : List ModuleParts) →
        module_with (with_modules p modules) rva ≡ module_with p rva → frames_at (with_modules p modules) rva ≡ frames_at p rva }
    ensures ids { (p : PdbParts) (rva : ℕ) (ids : TypesView) → map unnamed (frames_at (with_ids p ids) rva) ≡ map unnamed (frames_at p rva) }
    ensures names { (p : PdbParts) (rva : ℕ) (names : List ℕ) →
        map without_file (frames_at (with_names p names) rva) ≡ map without_file (frames_at p rva) }
    ensures lines { (p : PdbParts) (rva : ℕ) (modules : List ModuleParts) (m : ModuleParts) (lines : List ℕ) →
        module_with p rva ≡ Some m → module_with (with_modules p modules) rva ≡ Some (with_lines m lines) →
        map without_source (frames_at (with_modules p modules) rva) ≡ map without_source (frames_at p rva) }
{}

/// In an OMAP table that ascends an RVA is by the row that is at or before it where the next one is after it: `moved_to` finds by halves what
/// reading the table from its start finds.
#[tactic(auto, using(crate::proofs::OmapRows::by_row))]
pub fn omap_is_search()
    ensures { (b : List ℕ) (rva i : ℕ) → IsNonDecreasingBy (λ x. x.rva) (omap b) → i < length (omap b) →
        (omap_row b (8 * i)).rva ≤ rva → (i + 1 < length (omap b) → rva < (omap_row b (8 * (i + 1))).rva) →
        moved_to (omap b) rva ≡ moved_by rva (omap_row b (8 * i)) }
{}

/// A lookup reads at most as many entries of its index as their number has binary digits, and two, in whatever order they are.
pub fn lookup_reads(
    symbols: &mut CountedEntries<'_, u64>,
    lines: &mut CountedEntries<'_, LineEntry>,
    ranges: &mut CountedEntries<'_, RangeEntry>,
    rva: u32,
)
    ensures symbols { symbols.new.reads ≤ symbols.old.reads + digits (length symbols.old.entries.now) + 2 }
    ensures lines { lines.new.reads ≤ lines.old.reads + digits (length lines.old.entries.now) + 2 }
    ensures ranges { ranges.new.reads ≤ ranges.old.reads + digits (length ranges.old.entries.now) + 2 }
{
    search_symbols(symbols, rva);
    search_lines(lines, rva);
    search_ranges(ranges, u64::from(rva));
}
