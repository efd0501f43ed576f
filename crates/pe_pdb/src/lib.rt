//! Program databases (PDB 7.0), which have what a debugger reads of an image that was linked with debug information
//! ([layout](https://llvm.org/docs/PDB/)): the file, blocks over which streams are scattered, and the names of functions that
//! streams have.
//!
//! A caller opens streams (`Msf`, `Stream`), and copies each into a room of its own, or takes its range of the file where it is
//! contiguous. No call allocates. Each stream is opened alone: one that is damaged is refused, and leaves all others as they are.
//!
//! What reads streams takes their bytes, wherever they stand. The name of the function at an RVA, step by step:
//!
//! 1. the info stream and the DBI stream say whether the PDB is that of the image (`PdbInfo`, `Dbi`, `PdbKey`);
//! 2. `Dbi::debug_stream` says which stream has the section headers (`SectionHeaders`), and the header of the DBI stream which
//!    one has the public symbols;
//! 3. `SymbolIndex` sorts these by their RVAs in a room; `nearest` finds the last one at or before an RVA, and `PublicSymbol` reads
//!    its name;
//! 4. `Modules` and `ProcedureSymbol` have the functions that no other object sees, with their sizes: `covering` finds the one that
//!    has an RVA. `SectionContributions` and `ModuleIndex` say which module that is in;
//! 5. `LineIndex` finds the line of an RVA in the lines of its module (`Subsections`); `FileChecksum` and `Names` have the name of
//!    its file;
//! 6. `inlined_at` finds the functions that were inlined there, the innermost first; `InlineeLine` has their lines, and
//!    `TypeRecords` their names (`FunctionId`).
//!
//! The frames of an RVA have one definition, `frames_at` of `specs/Frames.antt`, which reads lists from their start. The law
//! `indexes_find_the_frames` says that these steps find them.
//!
//! Every call is proved to return what its definition in `specs/` says, for every byte string.
#![tactic(auto)]

mod annotation;
mod checksum;
mod contribution;
mod counted_entries;
mod dbi;
mod error;
mod file;
mod ids;
mod info;
mod inline_frames;
mod inline_rows;
mod inline_site;
mod inline_stack;
mod inline_walk;
mod inlinee;
mod key;
pub mod laws;
mod line;
mod line_entries;
mod line_index;
mod line_lookup;
mod line_scan;
mod module;
mod module_index;
mod module_lookup;
mod msf;
mod names;
mod omap;
mod procedure;
mod public;
mod record_text;
mod sections;
mod stream;
mod stream_bytes;
mod streams;
mod symbol;
mod symbol_entries;
mod symbol_index;
mod symbol_lookup;
mod symbol_scan;

pub use checksum::FileChecksum;
pub use contribution::{Contribution, ModuleRange, SectionContributions};
pub use counted_entries::CountedEntries;
pub use dbi::{
    DBI_STREAM, DEBUG_FPO, DEBUG_OMAP_FROM_SOURCE, DEBUG_OMAP_TO_SOURCE,
    DEBUG_ORIGINAL_SECTION_HEADERS, DEBUG_SECTION_HEADERS, Dbi, DbiHeader, NO_STREAM, debug_stream,
};
pub use error::{PdbError, Result};
pub use file::Msf;
pub use ids::{
    FunctionId, ID_STREAM, LF_FUNC_ID, LF_MFUNC_ID, LF_STRING_ID, TYPE_STREAM, TypeRecords,
    string_id,
};
pub use info::{INFO_STREAM, PdbInfo};
pub use inline_rows::{InlineRow, InlineRows};
pub use inline_site::{InlineSite, S_INLINESITE, S_INLINESITE2};
pub use inline_stack::{MOST_INLINED, NO_INLINE_FRAME, inlined_at};
pub use inline_walk::{InlineFrame, InlineFrames};
pub use inlinee::{DEBUG_S_INLINEELINES, InlineeLine, SourceLine};
pub use key::PdbKey;
pub use line::{
    DEBUG_S_FILECHKSMS, DEBUG_S_LINES, FIRST_BLOCK, LineBlock, LineBlocks, LineHeader, LineRow,
    Subsection, Subsections,
};
pub use line_entries::{CodeLine, LineEntry};
pub use line_index::LineIndex;
pub use line_lookup::{line_in, put_line_index, search_lines};
pub use line_scan::find_line;
pub use module::{FIRST_SYMBOL, Module, ModuleRecord, Modules};
pub use module_index::ModuleIndex;
pub use module_lookup::search_ranges;
pub use msf::SuperBlock;
pub use names::{NAMES_STREAM, Names, named_stream};
pub use omap::{OmapRow, moved_to};
pub use procedure::{ProcedureSymbol, S_GPROC32, S_GPROC32_ID, S_LPROC32, S_LPROC32_ID};
pub use public::{PublicSymbol, S_PUB32};
pub use sections::SectionHeaders;
pub use stream::Stream;
pub use symbol::{SymbolRecord, SymbolRecords};
pub use symbol_entries::SymbolClass;
pub use symbol_index::SymbolIndex;
pub use symbol_lookup::{
    SymbolAddress, covering_address, if_reaches, nearest_address, put_symbol_index, search_symbols,
};
pub use symbol_scan::find_symbol;
