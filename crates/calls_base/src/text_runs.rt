//! The texts at many offsets of some bytes, read together in a room of the caller. A hostile file may let thousands of names start
//! in one long text: to read each by itself would take quadratic time. Names that share their final zero lie in one run here, of
//! which each byte is read about once.

ghost use Rattle.std.specs.Prelude.{◌≡◌, ◌==◌, ◌≤◌, All, IsTrue, drop, length, position, take};
ghost use Rattle.std.specs.Option.{option_map};
ghost use Rattle.std.specs.Str.{is_utf8};
ghost use Rattle.pe_core.specs.Text.{text_at, text_of};
ghost use Rattle.pe_core.specs.TextRuns.{IsLastText};
ghost use Rattle.calls_base.specs.TextRuns.{IsTextRun, run_text};

use pe_core::text_at;

/// A run of fewer bytes is not kept: a text in it costs the same wherever it lies.
const LONG: u64 = 64;

/// The offsets from `start` to `end`, of which each has its first zero, at or after it, at `end`. Callers of the library pass room
/// for these, and what is in it means nothing to them.
#[repr(C)]
#[derive(Clone, Copy)]
pub struct Run {
    pub start: u64,
    /// Past all bytes where no zero follows.
    pub end: u64,
    /// Where the longest text starts that ends there. After `end` without one.
    pub text: u64,
}

/// No offset is in it.
pub const NO_RUN: Run = Run {
    start: 1,
    end: 0,
    text: 0,
};

impl Run {
    /// An offset whose run is not known yet: it starts there, and has no end.
    pub fn at(offset: usize) -> Run
        ensures start { result.start ≡ offset }
        ensures end { result.end ≡ 0 }
        ensures text { result.text ≡ 0 }
    {
        Run {
            start: offset as u64,
            end: 0,
            text: 0,
        }
    }
}

/// Where the longest suffix of the bytes starts that is UTF-8.
#[tactic(auto, using(pe_core::proofs::Texts::utf8_tests))]
fn last_text(bytes: &[u8]) -> usize
    ensures last { IsLastText bytes.now (drop result bytes.now) }
    ensures text { IsTrue (is_utf8 (drop result bytes.now)) }
    ensures within { result ≤ length bytes.now }
{
    let mut begin = 0;
    loop {
        match str::from_utf8(&bytes[begin..]) {
            Ok(_) => return begin,
            // No suffix that starts at or before the invalid byte is UTF-8.
            Err(error) => begin += error.valid_up_to() + 1,
        }
    }
}

/// The bytes from an offset on. Empty past their end.
#[tactic(auto, using(pe_core::proofs::Texts::rests))]
fn from_offset(bytes: &[u8], offset: usize) -> &[u8]
    ensures { result.now ≡ drop offset bytes.entry.now }
{
    if offset <= bytes.len() {
        &bytes[offset..]
    } else {
        &[]
    }
}

/// The index of the first zero.
#[inline(always)]
pub fn first_zero(bytes: &[u8]) -> Option<usize>
    ensures { result ≡ position (λ c. c == 0) bytes.now }
{
    bytes.iter().position(|byte| *byte == 0)
}

/// How many bytes there are from an offset up to the first zero, or to the end of all.
fn length_at(bytes: &[u8], offset: usize) -> usize
    ensures { result ≤ length bytes.now }
{
    let rest = from_offset(bytes, offset);
    first_zero(rest).unwrap_or(rest.len())
}

/// What the texts at some offsets cost that are read by themselves. Those that start after a zero, each after the one before, have
/// no byte in common; the others are counted.
#[derive(Clone, Copy)]
pub struct TextCosts {
    /// Where the last text starts that is not counted.
    last: usize,
    /// How many bytes the others may have yet.
    left: usize,
}

impl TextCosts {
    /// No text is read. Those that are counted may have as many bytes as there are.
    pub fn of(bytes: &[u8]) -> TextCosts {
        TextCosts {
            last: 0,
            left: bytes.len(),
        }
    }

    /// Adds the text at an offset, if there is one, and returns whether it is too much.
    pub fn are_over(&mut self, bytes: &[u8], offset: Option<usize>) -> bool {
        let Some(offset) = offset else {
            return false;
        };
        if self.last < offset && offset <= bytes.len() && bytes[offset - 1] == 0 {
            self.last = offset;
            return false;
        }
        let length = length_at(bytes, offset);
        if self.left <= length {
            return true;
        }
        self.left -= length + 1;
        false
    }
}

/// The end of the next so many entries of a table, from an index on.
pub fn end_of_next(next: u64, most: usize, count: usize) -> usize
    ensures { result ≤ count }
{
    (next as usize).saturating_add(most).min(count)
}

/// The runs at the start of a room, so many at most.
pub fn first_runs(room: &mut [Run], most: usize) -> &mut [Run] {
    let count = room.len().min(most);
    &mut room[..count]
}

/// The run that starts at an offset.
fn run_from(bytes: &[u8], start: usize) -> Run
    ensures { IsTextRun bytes.now result }
{
    let rest = from_offset(bytes, start);
    match first_zero(rest) {
        Some(n) => Run {
            start: start as u64,
            end: (start + n) as u64,
            text: (start + last_text(&rest[..n])) as u64,
        },
        None => Run {
            start: start as u64,
            end: u64::MAX - 1,
            text: u64::MAX,
        },
    }
}

/// The longest text that ends where a run does.
#[tactic(auto, unfolding(crate::specs::TextRuns::run_text), using(pe_core::proofs::Texts::utf8_tests, std::proofs::lemmas::Bool::Decides::nat_tests))]
fn run_text<'a>(bytes: &'a [u8], run: &Run) -> Option<&'a str>
    requires { IsTextRun bytes.now run.now }
    ensures { option_map (λ s. s.now) result ≡ run_text bytes.entry.now run.now }
{
    if run.text <= run.end && run.end <= bytes.len() as u64 {
        let text = &bytes[run.text as usize..run.end as usize];
        // SAFETY: a run has a text.
        Some(unsafe { str::from_utf8_unchecked(text) })
    } else {
        None
    }
}

/// The suffix of a text from an offset on. `None` if no character starts there.
#[tactic(auto, using(pe_core::proofs::TextEnds::ends_of_text))]
fn text_from(text: &str, offset: usize) -> Option<&str>
    requires { offset ≤ length text.now }
    ensures { option_map (λ s. s.now) result ≡ text_of (drop offset text.now) }
{
    if text.is_char_boundary(offset) {
        Some(&text[offset..])
    } else {
        None
    }
}

/// The text at an offset of a run.
#[tactic(auto, unfolding(pe_core::specs::TextRuns::last_of))]
fn text_of_run<'a>(bytes: &'a [u8], run: &Run, offset: usize) -> Option<&'a str>
    requires run { IsTextRun bytes.now run.now }
    requires start { run.now.start ≤ offset }
    requires end { offset ≤ run.now.end }
    ensures { option_map (λ s. s.now) result ≡ text_at bytes.entry.now offset }
{
    let n = run.end as usize - offset;
    match run_text(bytes, run) {
        Some(text) if n <= text.len() => text_from(text, text.len() - n),
        _ => None,
    }
}

/// Makes runs of the offsets that the room has as starts, which rise, and returns how many there are: they are at the start of the
/// room. Each of the offsets lies in one of them, or fewer than `LONG` bytes before a zero.
fn keep_runs(bytes: &[u8], room: &mut [Run]) -> usize
    ensures runs { All (IsTextRun bytes.now) (take result room.new) }
    ensures inside { result ≤ length room.new }
{
    let mut count = 0;
    let mut run = NO_RUN;
    for i in 0..room.len() {
        let offset = room[i].start;
        if offset < run.start || run.end < offset {
            run = run_from(bytes, offset as usize);
            if run.end.saturating_sub(run.start) >= LONG {
                room[count] = run;
                count += 1;
            }
        }
    }
    count
}

/// Bytes in which texts are looked up.
#[derive(Clone, Copy)]
pub struct Texts<'a> {
    pub bytes: &'a [u8],
    /// Where they are sorted by start, a text of one of them costs as much as a short one.
    runs: &'a [Run],
    ghost are: { All (IsTextRun bytes.now) runs.now },
}

impl<'a> Texts<'a> {
    /// Texts that are read by themselves.
    pub fn alone(bytes: &'a [u8]) -> Texts<'a>
        ensures { result.bytes.now ≡ bytes.entry.now }
    {
        Texts { bytes, runs: &[] }
    }

    /// Texts at the offsets that the room has as starts, and others. What is in the room after it is left open.
    pub fn together(bytes: &'a [u8], room: &'a mut [Run]) -> Texts<'a>
        ensures { result.bytes.now ≡ bytes.entry.now }
    {
        room.sort_unstable_by_key(|run| run.start);
        let count = keep_runs(bytes, room);
        Texts {
            bytes,
            runs: &room[..count],
        }
    }

    /// The text at an offset: by the run in which it lies, or by itself if it lies in none.
    #[inline(always)]
    pub fn at(&self, offset: usize) -> Option<&'a str>
        ensures { option_map (λ s. s.now) result ≡ text_at self.now.bytes.now offset }
    {
        if self.runs.is_empty() {
            return text_at(self.bytes, offset);
        }
        text_by_runs(self.bytes, self.runs, offset)
    }
}

/// The text at an offset by runs. Out of line, since mostly there are none.
#[inline(never)]
fn text_by_runs<'a>(bytes: &'a [u8], runs: &[Run], offset: usize) -> Option<&'a str>
    requires { All (IsTextRun bytes.now) runs.now }
    ensures { option_map (λ s. s.now) result ≡ text_at bytes.entry.now offset }
{
    let after = runs.partition_point(|run| run.start <= offset as u64);
    if 0 < after {
        let run = &runs[after - 1];
        if run.start <= offset as u64 && offset as u64 <= run.end {
            return text_of_run(bytes, run, offset);
        }
    }
    text_at(bytes, offset)
}
