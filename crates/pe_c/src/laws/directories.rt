//! Laws of the ranges that calls return of directories which pe_directories reads.

ghost use Rattle.std.specs.Prelude.{◌≡◌, ℕ, ◌+◌, ◌≤◌, List, length, IfSome, Ok, Some, ◌∷◌, Err, Result, [], ◌<◌, false};
ghost use Rattle.std.specs.List.{AllZip};
ghost use Rattle.calls_directories.specs.Clr.{content_of, first_stream_in, metadata_reported, stream_reported};
ghost use Rattle.calls_directories.specs.DelayImports.{dll_range, function_of, functions_of, dll_reported, import_reported, table_reported};
ghost use Rattle.calls_base.specs.Directories.{image_parts};
ghost use Rattle.calls_base.specs.Images.{map_of_image};
ghost use Rattle.calls_base.specs.Modes.{resolves};
ghost use Rattle.calls_base.specs.Ranges.{IsRange, bytes_at, range_of};
ghost use Rattle.calls_directories.specs.declared.directories.clr.MetadataStreams.{MetadataStreams};
ghost use Rattle.calls_directories.specs.declared.directories.delay_imports.DelayedFunction.{DelayedFunction};
ghost use Rattle.calls_base.specs.declared.image.Image.{Image};
ghost use Rattle.calls_base.specs.declared.ranges.Range.{Range};
ghost use Rattle.pe_core.specs.Bytes.{range};
ghost use Rattle.pe_core.specs.declared.byte_range.ByteRange.{ByteRange};
ghost use Rattle.pe_core.specs.declared.section_table.SectionTable.{SectionTable};
ghost use Rattle.pe_directories.specs.Clr.{Metadata, Stream, metadata_of};
ghost use Rattle.pe_directories.specs.DelayImports.{Name, delay_dll, imported_by};
ghost use Rattle.pe_directories.specs.declared.delay_import.DelayImport.{DelayImport};
ghost use Rattle.pe_directories.specs.DirectoryRefusals.{DirectoryRefusal};
ghost use Rattle.pe_directories.specs.GuardTables.{Guarded, first_guarded};
ghost use Rattle.pe_directories.specs.Walks.{Items};
ghost use Rattle.pe_directories.specs.declared.load_config.LoadConfig.{LoadConfig};
ghost use Rattle.calls_base.specs.DirectoryResults.{directory_number};
ghost use Rattle.calls_directories.specs.GuardTables.{ReturnsEntries, StartsEntries, StepsGuardEntries, entries_in, place_of};
ghost use Rattle.calls_base.specs.Lists.{GiveLists};
ghost use Rattle.calls_base.specs.Runs.{ReturnsItems};
ghost use Rattle.calls_directories.specs.declared.directories.guard_tables.GuardEntries.{GuardEntries};
ghost use Rattle.calls_base.specs.Loaded.{PutsImage};
ghost use Rattle.calls_base.specs.Views.{map_of};
ghost use Rattle.calls_base.specs.declared.results.TheConstants.{DONE};
ghost use Rattle.calls_base.specs.declared.view.View.{View};
ghost use Rattle.pe_core.specs.Refusals.{Refusal};
ghost use Rattle.calls_directories.specs.VersionBlocks.{ArePartsOf, ReportsBlock, StepsThrough, reported};
ghost use Rattle.calls_directories.specs.declared.resources.version_blocks.VersionBlock.{VersionBlock};
ghost use Rattle.pe_resource.specs.VersionBlocks.{Block, blocks, first_block};

/// The ranges of a metadata root lie in the bytes, and are its version text, the headers of its streams and the metadata.
pub fn ranges_of_metadata_are_its_parts()
    ensures version { (b : List ℕ) (r : ByteRange) (m : Metadata) →
        r.offset + r.length ≤ length b → metadata_of (range b r.offset r.length) ≡ Ok m →
        IsRange b (metadata_reported (range_of r) m).version m.version }
    ensures headers { (b : List ℕ) (r : ByteRange) (m : Metadata) →
        r.offset + r.length ≤ length b → metadata_of (range b r.offset r.length) ≡ Ok m →
        IsRange b (metadata_reported (range_of r) m).streams.headers m.stream_headers }
    ensures metadata { (b : List ℕ) (r : ByteRange) (m : Metadata) →
        r.offset + r.length ≤ length b → metadata_of (range b r.offset r.length) ≡ Ok m →
        IsRange b (metadata_reported (range_of r) m).streams.metadata m.bytes }
{}

/// The ranges of the stream that stands first in a walk lie in the bytes, and are its name and its part of the metadata.
#[tactic(auto, using(calls_directories::proofs::DirectoryParts::name_of_stream_stands, calls_directories::proofs::DirectoryParts::content_stands))]
pub fn ranges_of_streams_are_their_parts()
    ensures name { (b : List ℕ) (w : MetadataStreams) (s : Stream) (left : ℕ × List ℕ) →
        first_stream_in b w ≡ Some (Ok (s, left)) → IsRange b (stream_reported w s).name s.name }
    ensures content { (b metadata : List ℕ) (w : MetadataStreams) (s : Stream) →
        bytes_at b w.metadata ≡ Ok metadata →
        IfSome (content_of w.metadata s) (λ r. IsRange b r (range metadata s.offset s.size)) }
{}

/// The ranges of the names of delay imports lie in the bytes, and are these names.
pub fn ranges_of_delay_imports_are_their_names()
    ensures dll { (b : List ℕ) (image : Image) (sections : List SectionTable) (e : DelayImport)
        (name : List ℕ) (r : Range) → delay_dll (image_parts b image sections) e ≡ Ok name →
        dll_range (map_of_image image sections) b image e ≡ Ok r → IsRange b r name }
    ensures function { (b : List ℕ) (image : Image) (sections : List SectionTable)
        (e : DelayImport) (number hint : ℕ) (name : List ℕ) (f : DelayedFunction) →
        imported_by (image_parts b image sections) e number ≡ Ok (Name hint name) →
        function_of (map_of_image image sections) b image e.attributes number ≡ Ok f →
        IsRange b f.name name }
{}

/// Where RVAs are mapped by the sections of the image, steps over delay imports return what pe_directories defines, or the same
/// refusal: the name of a DLL, the table of what is imported of it, and what a number of the table imports.
#[tactic(auto, using(calls_directories::proofs::DelayAddresses::same_dll, calls_directories::proofs::DelayAddresses::same_function, calls_directories::proofs::DelayAddresses::same_table))]
pub fn delay_imports_are_those_of_the_image()
    ensures dll { (b : List ℕ) (image : Image) (sections : List SectionTable) (e : DelayImport) →
        dll_range (map_of_image image sections) b image e
        ≡ dll_reported (image_parts b image sections) e }
    ensures table { (b : List ℕ) (image : Image) (sections : List SectionTable) (e : DelayImport) →
        functions_of (map_of_image image sections) b image e
        ≡ table_reported (image_parts b image sections) e }
    ensures function { (b : List ℕ) (image : Image) (sections : List SectionTable)
        (e : DelayImport) (number : ℕ) →
        function_of (map_of_image image sections) b image e.attributes number
        ≡ import_reported (image_parts b image sections) e number }
{}

/// A walk over a table returns its entries, as many as the load configuration says, each with its RVA and the range of its
/// flags, and `SHORT` where the bytes end before that. The list call returns what the steps do.
pub fn walks_give_the_guard_entries()
    ensures of_image { (table : ℕ) (b : List ℕ) (image : Image) (sections : List SectionTable)
        (walk : GuardEntries) (config : LoadConfig) (left : ℕ × List ℕ)
        (items : List (Result Guarded DirectoryRefusal)) →
        StartsEntries table b image sections walk config left →
        Items (first_guarded (place_of table config).flag_size) left items →
        ReturnsEntries b walk items }
    ensures entries { (b : List ℕ) (walk : GuardEntries) (left : List ℕ)
        (items : List (Result Guarded DirectoryRefusal)) → bytes_at b walk.entries ≡ Ok left →
        Items (first_guarded walk.flag_size) (walk.count, left) items →
        ReturnsEntries b walk items }
    ensures outside { (b : List ℕ) (walk : GuardEntries) (refusal : DirectoryRefusal) →
        entries_in b walk ≡ Err refusal →
        ReturnsItems (StepsGuardEntries b) walk (Err refusal ∷ []) }
    ensures lists { (b : List ℕ) → GiveLists directory_number (StepsGuardEntries b) }
{}

/// By a view in a mode with `PE_C_MAPPED` each RVA is its own offset (`offsets`). After `pe_c_map` the room has there what the file has:
/// where the file's view maps RVAs below `size_of_image` one after the other, as those of a part in one section, to bytes that the file
/// has, the room has these bytes at the first of the RVAs (`bytes`).
#[tactic(auto, using(calls_base::proofs::LoadedRooms::own_offset, calls_base::proofs::LoadedRooms::same_bytes))]
pub fn mapped_images_are_read_as_files()
    ensures offsets { (v : View) (x : ℕ) → resolves v.image.now.mode ≡ false → map_of v x ≡ Some x }
    ensures bytes { (v : View) (old new : List ℕ) (written rva p n : ℕ) →
        PutsImage v DONE old new written →
        ((k : ℕ) → k < n → map_of v (rva + k) ≡ Some (p + k)) →
        p + n ≤ length v.bytes.now → rva + n ≤ v.image.now.size_of_image →
        range new rva n ≡ range v.bytes.now p n }
{}

/// The ranges of a block as calls return it lie in the bytes, and are its parts.
#[tactic(auto, using(calls_directories::proofs::VersionBlockParts::parts))]
pub fn ranges_of_version_blocks()
    ensures parts { (b : List ℕ) (walk : Range) (left rest : List ℕ) (k : Block) →
        bytes_at b walk ≡ Ok left →
        first_block left ≡ Some (Ok k, rest) → ArePartsOf b (reported walk k) k }
{}

/// Calls one after the other return the blocks of a walk's bytes, all of them, and then nothing: then the walk is over. A block
/// that is not read is an error, after which the calls go on. `walk` is inside the bytes.
#[tactic(auto, using(calls_directories::proofs::VersionBlockParts::steps_through))]
pub fn walks_give_the_version_blocks()
    ensures { (b : List ℕ) (walk : Range) (left : List ℕ) → bytes_at b walk ≡ Ok left →
        (items : List (Result VersionBlock Refusal))
        × StepsThrough b walk items × AllZip (ReportsBlock b) items (blocks left) }
{}
