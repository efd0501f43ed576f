//! The inlined functions that have an offset of a procedure, each in the one before it: the frames that a debugger shows above
//! that of the procedure. Records of symbols nest: what starts a scope is ended by `S_END` or another such record. The offsets of
//! parents and ends that they have too are not followed.

ghost use Rattle.std.specs.Prelude.{◌≡◌, ◌-◌, ◌^◌, ◌<◌, ◌≤◌, ◌+◌, ◌||◌, true, false, Ok, length};
ghost use Rattle.std.specs.Iterator.{at_most};
ghost use Rattle.pe_pdb.specs.InlineSites.{after_end, after_inner, after_part, after_skipped, frame_of, frames_in, frames_left, inline_frames, is_block, is_end, is_site, step_of};
ghost use Rattle.pe_pdb.specs.Procedures.{is_procedure};
ghost use Rattle.pe_pdb.specs.Refusals.{PdbReturns};
ghost use Rattle.pe_pdb.specs.Symbols.{symbol_view, symbols};
ghost use Rattle.pe_pdb.specs.Walks.{Takes};
ghost use Rattle.pe_pdb.specs.declared.inline_walk.Step.TheVariants.{On};

use crate::error::Result;
use crate::inline_rows::InlineRows;
use crate::inline_site::{InlineSite, S_INLINESITE, S_INLINESITE2};
use crate::inline_walk::{InlineFrame, InlineFrames, Scopes, Step};
use crate::procedure::is_procedure;
use crate::symbol::SymbolRecord;

/// Whether a record ends a scope: `S_END`, `S_INLINESITE_END`, `S_PROC_ID_END`.
fn is_end(kind: u16) -> bool
    ensures { result ≡ is_end kind }
{
    matches!(kind, 0x0006 | 0x114E | 0x114F)
}

/// Whether a record is that of an inlined function.
fn is_site(kind: u16) -> bool
    ensures { result ≡ is_site kind }
{
    matches!(kind, S_INLINESITE | S_INLINESITE2)
}

/// Whether a record starts a part of a function: `S_THUNK32`, `S_BLOCK32`, `S_SEPCODE`.
fn is_block(kind: u16) -> bool
    ensures { result ≡ is_block kind }
{
    matches!(kind, 0x1102 | 0x1103 | 0x1132)
}

/// Whether a record is of a kind that starts and ends nothing, as most are: those of variables, and of where these are.
fn is_variable(kind: u16) -> bool
    ensures { result ≡ true → (is_end kind || is_block kind || is_procedure kind || is_site kind) ≡ false }
{
    matches!(kind, 0x1133..=0x1145)
}

impl Scopes {
    /// Those after a record that ends one.
    fn after_end(&self) -> Scopes
        ensures { result ≡ after_end self.now }
    {
        if self.skipped == 0 {
            Scopes {
                skipped: 0,
                parts: self.parts.saturating_sub(1),
            }
        } else {
            Scopes {
                skipped: self.skipped - 1,
                parts: self.parts,
            }
        }
    }

    /// Those after a record that starts one that is left out.
    fn after_skipped(&self) -> Scopes
        requires { self.now.skipped + 1 < 2 ^ 64 }
        ensures { result ≡ after_skipped self.now }
    {
        Scopes {
            skipped: self.skipped + 1,
            parts: self.parts,
        }
    }

    /// Those after a record within one that is left out.
    fn after_inner(&self, kind: u16) -> Scopes
        requires { self.now.skipped + 1 < 2 ^ 64 }
        ensures { result ≡ after_inner kind self.now }
    {
        if is_block(kind) || is_procedure(kind) || is_site(kind) {
            self.after_skipped()
        } else {
            *self
        }
    }

    /// Those after a record that is no inlined function, and none is left out.
    fn after_part(&self, kind: u16) -> Scopes
        requires { self.now.parts + 1 < 2 ^ 64 }
        ensures { result ≡ after_part kind self.now }
    {
        if is_block(kind) {
            return Scopes {
                skipped: 0,
                parts: self.parts + 1,
            };
        }
        if is_procedure(kind) {
            return Scopes {
                skipped: 1,
                parts: self.parts,
            };
        }
        *self
    }
}

/// An inlined function and the row of it that has an offset. `None` if none has.
#[tactic(auto, unfolding(crate::specs::InlineSites::frame_of))]
fn frame_of(offset: u32, record: &SymbolRecord<'_>) -> Result<Option<InlineFrame>>
    ensures { PdbReturns (λ f. f) result (frame_of offset (symbol_view record.now)) }
{
    let site = InlineSite::parse(record.kind, record.content)?;
    let Some(row) = InlineRows::row_at(site.annotations, offset)? else {
        return Ok(None);
    };
    Ok(Some(InlineFrame {
        record_offset: record.offset,
        inlinee: site.inlinee,
        row,
    }))
}

impl<'a> InlineFrames<'a> {
    /// The inlined functions that have an offset from the start of a procedure, by the offset of the procedure's record in the
    /// symbols of its module, as `SymbolIndex::covering` returns it. It reads the records up to the end of the procedure once.
    /// Errors: those of `SymbolRecord::parse`.
    pub fn new(bytes: &'a [u8], procedure: usize, offset: u32) -> Result<InlineFrames<'a>>
        ensures { PdbReturns (λ s. frames_left s) result (inline_frames bytes.entry.now procedure offset) }
    {
        let record = SymbolRecord::parse(bytes, procedure)?;
        Ok(InlineFrames {
            bytes,
            next: record.end(),
            offset,
            scopes: Scopes {
                skipped: 0,
                parts: 0,
            },
        })
    }

    /// What a record is for the walk.
    #[tactic(auto, unfolding(crate::specs::InlineSites::step_of))]
    fn step(&self, record: &SymbolRecord<'_>) -> Result<Step>
        requires { self.now.next + 1 < 2 ^ 64 }
        ensures value { PdbReturns (λ s. s) result (step_of self.now.offset self.now.scopes (symbol_view record.now)) }
        ensures few { (s : Scopes) → result ≡ Ok (On s) →
            s.skipped + s.parts ≤ self.now.scopes.skipped + self.now.scopes.parts + 1 }
    {
        let scopes = self.scopes;
        if is_variable(record.kind) {
            return Ok(Step::On(scopes));
        }
        if is_end(record.kind) {
            if scopes.skipped == 0 && scopes.parts == 0 {
                return Ok(Step::Over);
            }
            return Ok(Step::On(scopes.after_end()));
        }
        if scopes.skipped > 0 {
            return Ok(Step::On(scopes.after_inner(record.kind)));
        }
        if is_site(record.kind) {
            return match frame_of(self.offset, record)? {
                None => Ok(Step::On(scopes.after_skipped())),
                Some(frame) => Ok(Step::Found(frame)),
            };
        }
        Ok(Step::On(scopes.after_part(record.kind)))
    }

    /// The same walk, at an offset and in these scopes.
    fn at(&self, next: usize, scopes: Scopes) -> InlineFrames<'a>
        requires { scopes.skipped + scopes.parts ≤ next }
        ensures left { frames_left result ≡ frames_in self.now.offset scopes (symbols self.now.bytes.now next) }
        ensures bytes { result.bytes ≡ self.now.bytes }
        ensures next { result.next ≡ next }
    {
        InlineFrames {
            bytes: self.bytes,
            next,
            offset: self.offset,
            scopes,
        }
    }
}

/// No scopes.
const NO_SCOPES: Scopes = Scopes {
    skipped: 0,
    parts: 0,
};

impl<'a> Iterator for InlineFrames<'a> {
    type Item = Result<InlineFrame>;

    ghost next_gives = { λ s r t. Takes (λ f. f) (frames_left s) r (frames_left t) };

    ghost remaining = { λ s. at_most (length s.bytes.now - s.next) };

    fn next(&mut self) -> Option<Result<InlineFrame>> {
        while self.next < self.bytes.len() {
            let record = match SymbolRecord::parse(self.bytes, self.next) {
                Ok(record) => record,
                Err(error) => {
                    *self = self.at(self.bytes.len(), NO_SCOPES);
                    return Some(Err(error));
                }
            };
            let step = match self.step(&record) {
                Ok(step) => step,
                Err(error) => {
                    *self = self.at(self.bytes.len(), NO_SCOPES);
                    return Some(Err(error));
                }
            };
            match step {
                Step::Over => *self = self.at(self.bytes.len(), NO_SCOPES),
                Step::On(scopes) => *self = self.at(record.end(), scopes),
                Step::Found(frame) => {
                    *self = self.at(record.end(), NO_SCOPES);
                    return Some(Ok(frame));
                }
            }
        }
        None
    }
}
