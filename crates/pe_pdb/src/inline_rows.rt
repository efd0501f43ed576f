//! The rows of an inlined function: which of its code is of which line. They stand as annotations in its record (`InlineSite`):
//! each moves an offset, a line or a file, and some start a row there. A row reaches to the start of the next one, unless it has
//! a length.
//!
//! Offsets count from the start of the procedure, lines from the line of the inlined function (`InlineeLine`).

ghost use Rattle.std.specs.Prelude.{◌≡◌, ◌+◌, ◌-◌, ◌<◌, ◌≤◌, ◌^◌, length, is_some};
ghost use Rattle.std.specs.Iterator.{at_most};
ghost use Rattle.pe_pdb.specs.Annotations.{advance, closed, found_in, inline_rows, has_offset, kept, length_to, moved, moved_line, row_at, row_from, rows_left, starts_row};
ghost use Rattle.pe_pdb.specs.InlineWalks.{rows_bound};
ghost use Rattle.pe_pdb.specs.Refusals.{PdbReturns};
ghost use Rattle.pe_pdb.specs.Walks.{Takes};

use crate::annotation::Annotation;
use crate::error::Result;

/// Where annotations have come to.
#[derive(Clone, Copy)]
pub(crate) struct Cursor {
    pub(crate) offset: u32,
    pub(crate) line: u32,
    pub(crate) file: Option<u32>,
}

/// Where they start.
const START: Cursor = Cursor {
    offset: 0,
    line: 0,
    file: None,
};

/// A row that was started, with its length if an annotation gave it one.
#[derive(Clone, Copy)]
pub(crate) struct OpenRow {
    pub(crate) start: Cursor,
    pub(crate) own_length: Option<u32>,
}

/// A row of an inlined function.
#[derive(Clone, Copy)]
pub struct InlineRow {
    /// Where its code starts, from the start of the procedure.
    pub offset: u32,
    /// How many bytes of code it has.
    pub length: u32,
    /// How far its line is after that of the inlined function, modulo 2^32: one before it has all bits set.
    pub line: u32,
    /// Its file, an offset in the content of `DEBUG_S_FILECHKSMS`. `None`: that of the inlined function.
    pub file: Option<u32>,
}

/// A line moved by an operand whose lowest bit is its sign.
fn moved_line(line: u32, operand: u32) -> u32
    ensures { result ≡ moved_line line operand }
{
    if operand % 2 == 1 {
        line.wrapping_sub(operand / 2)
    } else {
        line.wrapping_add(operand / 2)
    }
}

/// How far an annotation moves the offset.
fn advance(annotation: &Annotation) -> u32
    ensures { result ≡ advance annotation.now }
{
    match annotation.operation {
        3 | 4 => annotation.first,
        11 => annotation.first % 16,
        12 => annotation.second,
        _ => 0,
    }
}

/// Whether an annotation starts a row.
fn starts_row(annotation: &Annotation) -> bool
    ensures { result ≡ starts_row annotation.now }
{
    matches!(annotation.operation, 3 | 11 | 12)
}

impl Cursor {
    /// Where an annotation leaves it.
    #[tactic(auto, unfolding(crate::specs::Annotations::moved))]
    fn moved(&self, annotation: &Annotation) -> Cursor
        ensures { result ≡ moved self.now annotation.now }
    {
        let first = annotation.first;
        Cursor {
            offset: if annotation.operation == 1 {
                first
            } else {
                self.offset.wrapping_add(advance(annotation))
            },
            line: match annotation.operation {
                6 => moved_line(self.line, first),
                11 => moved_line(self.line, first / 16),
                _ => self.line,
            },
            file: if annotation.operation == 5 {
                Some(first)
            } else {
                self.file
            },
        }
    }
}

impl OpenRow {
    /// The row that an annotation starts.
    fn new(annotation: &Annotation, start: Cursor) -> OpenRow
        ensures { result ≡ row_from annotation.now start }
    {
        OpenRow {
            start,
            own_length: if annotation.operation == 12 {
                Some(annotation.first)
            } else {
                None
            },
        }
    }

    /// The row, as it is if the next one starts at an offset.
    fn closed(&self, next: u32) -> InlineRow
        ensures { result ≡ closed self.now next }
    {
        let start = self.start;
        InlineRow {
            offset: start.offset,
            length: match self.own_length {
                Some(length) => length,
                None => next.saturating_sub(start.offset),
            },
            line: start.line,
            file: start.file,
        }
    }
}

/// The last row, with the length that operation 4 gives it.
fn kept(annotation: &Annotation, last: Option<OpenRow>) -> Option<OpenRow>
    ensures { result ≡ kept annotation.now last }
{
    let mut row = last?;
    if annotation.operation == 4 {
        row.own_length = Some(annotation.first);
    }
    Some(row)
}

impl InlineRow {
    /// Whether it has an offset from the start of the procedure.
    fn has(&self, offset: u32) -> bool
        ensures { result ≡ has_offset offset self.now }
    {
        self.offset <= offset && offset - self.offset < self.length
    }
}

/// The rows that are left of an inlined function. It is over after an error.
#[derive(Clone, Copy)]
pub struct InlineRows<'a> {
    bytes: &'a [u8],
    next: usize,
    cursor: Cursor,
    last: Option<OpenRow>,
}

impl<'a> InlineRows<'a> {
    /// The rows by these annotations, `InlineSite::annotations`.
    pub fn new(annotations: &'a [u8]) -> InlineRows<'a>
        ensures { rows_left result ≡ inline_rows annotations.entry.now }
    {
        InlineRows {
            bytes: annotations,
            next: 0,
            cursor: START,
            last: None,
        }
    }

    /// The row that an offset from the start of the procedure has: of several the last. `None` where it has none. Error:
    /// `Annotation`.
    pub fn row_at(annotations: &[u8], offset: u32) -> Result<Option<InlineRow>>
        ensures { PdbReturns (λ r. r) result (row_at annotations.now offset) }
    {
        let mut found = None;
        let mut last = None;
        let mut cursor = START;
        let mut next = 0;
        // Each row is closed where the next one starts, in place of a walk over rows, which takes twice as long.
        while next < annotations.len() {
            let (annotation, end) = Annotation::parse(annotations, next)?;
            next = end;
            cursor = cursor.moved(&annotation);
            if starts_row(&annotation) {
                found = found_in(last, cursor.offset, offset, found);
                last = Some(OpenRow::new(&annotation, cursor));
            } else {
                last = kept(&annotation, last);
            }
        }
        Ok(found_in(last, 0, offset, found))
    }
}

/// A row that has an offset, if the next one starts at another, else the one that was found before it.
fn found_in(
    row: Option<OpenRow>,
    next: u32,
    offset: u32,
    found: Option<InlineRow>,
) -> Option<InlineRow>
    ensures { result ≡ found_in row next offset found }
{
    match row {
        Some(row) if row.closed(next).has(offset) => Some(row.closed(next)),
        _ => found,
    }
}

impl<'a> Iterator for InlineRows<'a> {
    type Item = Result<InlineRow>;

    ghost next_gives = { λ s r t. Takes (λ x. x) (rows_left s) r (rows_left t) };

    ghost remaining = { λ s. at_most (rows_bound s) };

    fn next(&mut self) -> Option<Result<InlineRow>> {
        while self.next < self.bytes.len() {
            let (annotation, end) = match Annotation::parse(self.bytes, self.next) {
                Ok(parsed) => parsed,
                Err(error) => {
                    self.next = self.bytes.len();
                    self.last = None;
                    return Some(Err(error));
                }
            };
            self.next = end;
            self.cursor = self.cursor.moved(&annotation);
            if starts_row(&annotation) {
                let row = OpenRow::new(&annotation, self.cursor);
                if let Some(before) = self.last.replace(row) {
                    return Some(Ok(before.closed(self.cursor.offset)));
                }
            } else {
                self.last = kept(&annotation, self.last);
            }
        }
        let last = self.last.take()?;
        Some(Ok(last.closed(0)))
    }
}
