//! The texts at many offsets of a byte slice, each byte read about once. A hostile image may let thousands of names
//! start in one long text: to read each by itself would take quadratic time. Names that share a NUL are suffixes of one
//! run here.

ghost use Rattle.std.specs.Prelude.{◌≡◌, ℕ, ◌≤◌, ◌-◌, length, drop, map, IfOk, IfSome, OnOk, All, []};
ghost use Rattle.std.specs.Option.{option_map};
ghost use Rattle.pe_core.specs.Text.{text_of, text_at, texts_of};
ghost use Rattle.pe_core.specs.TextRuns.{AreFirstTexts, IsLastText, IsRun, last_of};

use crate::first_zero::first_zero;
use crate::text::{ascii_text_at, from_offset, text_at, text_of};
use std::alloc::{AllocError, Allocator};

/// A text of fewer bytes is short, and a run of at least as many is kept.
const LONG: usize = 64;

/// The offsets from `start` to `end`: the first zero at or after each of them is at `end`. Without a zero `end` is
/// `usize::MAX`.
#[derive(Clone, Copy)]
struct Run<'a> {
    start: usize,
    end: usize,
    /// The longest suffix of the bytes before the zero that is UTF-8. The text at an offset of the run is a suffix of
    /// it.
    text: Option<&'a str>,
}

/// The longest suffix of the bytes that is UTF-8.
fn last_text(bytes: &[u8]) -> &str
    ensures { IsLastText bytes.now result.now }
{
    let mut begin = 0;
    loop {
        match str::from_utf8(&bytes[begin..]) {
            Ok(text) => return text,
            // No suffix that starts at or before the invalid byte is UTF-8.
            Err(error) => begin += error.valid_up_to() + 1,
        }
    }
}

/// The suffix of the text from `offset` on. `None` if no character starts there.
#[tactic(auto, using(crate::proofs::TextEnds::ends_of_text))]
fn text_from(text: &str, offset: usize) -> Option<&str>
    requires { offset ≤ length text.now }
    ensures { option_map (λ s. s.now) result ≡ text_of (drop offset text.now) }
{
    if text.is_char_boundary(offset) {
        Some(&text[offset..])
    } else {
        None
    }
}

/// The text at `offset`, if a zero ends it within `LONG` bytes, as most names. Such a text costs the same
/// wherever it lies, so no run is kept for it.
#[tactic(auto, using(crate::proofs::FirstZero::short_texts))]
fn short_text_at(bytes: &[u8], offset: usize) -> Option<Option<&str>>
    ensures { IfSome result (λ text. option_map (λ s. s.now) text ≡ text_at bytes.now offset) }
{
    if let Some(text) = ascii_text_at(bytes, offset, LONG) {
        return Some(Some(text));
    }
    let rest = from_offset(bytes, offset);
    let first = &rest[..rest.len().min(LONG)];
    let length = first_zero(first)?;
    Some(text_of(&first[..length]))
}

/// The run that starts at this offset.
fn run_from(bytes: &[u8], start: usize) -> Run<'_>
    ensures run { IsRun bytes.now result }
    ensures start { result.start ≡ start }
    ensures rises { start ≤ result.end }
{
    let rest = from_offset(bytes, start);
    match first_zero(rest) {
        Some(n) => Run {
            start,
            end: start + n,
            text: Some(last_text(&rest[..n])),
        },
        None => Run {
            start,
            end: usize::MAX,
            text: None,
        },
    }
}

/// The text at an offset of a run.
#[tactic(auto, unfolding(crate::specs::TextRuns::last_of))]
fn text_of_run<'a>(run: &Run<'a>, offset: usize) -> Option<&'a str>
    requires { offset ≤ run.now.end }
    ensures { option_map (λ s. s.now) result ≡ last_of (option_map (λ s. s.now) run.now.text)
        (run.now.end - offset) }
{
    let n = run.end - offset;
    match run.text {
        Some(text) if n <= text.len() => text_from(text, text.len() - n),
        _ => None,
    }
}

/// The text at `offset`: by the run if the offset lies in it; else by its first `LONG` bytes; else by a new run
/// from there, which replaces the old one. Also returns how many bytes were read for the new run.
fn text_by_run<'a>(bytes: &'a [u8], run: &mut Run<'a>, offset: usize) -> (Option<&'a str>, usize)
    requires { IsRun bytes.now run.old }
    ensures run { IsRun bytes.entry.now run.new }
    ensures text { option_map (λ s. s.now) result.0 ≡ text_at bytes.entry.now offset }
{
    if run.start <= offset && offset <= run.end {
        return (text_of_run(run, offset), 0);
    }
    if let Some(text) = short_text_at(bytes, offset) {
        return (text, 0);
    }
    *run = run_from(bytes, offset);
    (
        text_of_run(run, offset),
        run.end.min(bytes.len()).saturating_sub(offset),
    )
}

/// Appends the texts at the first offsets, until as many bytes were read for runs as `bytes` has.
fn push_first_texts<'a, A: Allocator>(
    bytes: &'a [u8],
    offsets: &[usize],
    texts: &mut Vec<Option<&'a str>, A>,
) -> Result<(), AllocError>
    requires { texts.old.items ≡ [] }
    ensures { OnOk result (AreFirstTexts bytes.entry.now offsets.now texts.new.items) }
{
    // The bytes that may still be read for runs: offsets that jump between long texts use them up.
    let mut left = bytes.len();
    let mut run = run_from(bytes, bytes.len());
    for offset in offsets {
        if left == 0 {
            break;
        }
        let (text, read) = text_by_run(bytes, &mut run, *offset);
        left = left.saturating_sub(read);
        texts.push(text)?;
    }
    Ok(())
}

/// The long runs, sorted by start. Each of the offsets in `bytes` lies in one of them, or fewer than `LONG` bytes
/// before a zero.
fn long_runs_at<'a, A: Allocator + Copy + Drop>(
    alloc: A,
    bytes: &'a [u8],
    offsets: &[usize],
) -> Result<Vec<Run<'a>, A>, AllocError>
    ensures { IfOk result (λ runs. All (IsRun bytes.entry.now) runs.items) }
{
    let mut rising = Vec::new(alloc);
    rising.extend_from_slice(offsets)?;
    rising.sort_unstable();
    let mut runs: Vec<Run<'a>, A> = Vec::new(alloc);
    let mut run = run_from(bytes, usize::MAX);
    for offset in &rising {
        let offset = *offset;
        if offset < run.start || run.end < offset {
            run = run_from(bytes, offset);
            // The texts of a short run are read by themselves.
            if run.end - run.start >= LONG {
                runs.push(run)?;
            }
        }
    }
    Ok(runs)
}

/// The text at `offset`, by the run in which it lies, or by itself if it lies in none.
fn text_among<'a>(bytes: &'a [u8], runs: &[Run<'a>], offset: usize) -> Option<&'a str>
    requires { All (IsRun bytes.now) runs.now }
    ensures { option_map (λ s. s.now) result ≡ text_at bytes.entry.now offset }
{
    let after = runs.partition_point(|run| run.start <= offset);
    if 0 < after {
        let run = runs[after - 1];
        if run.start <= offset && offset <= run.end {
            return text_of_run(&run, offset);
        }
    }
    text_at(bytes, offset)
}

/// The NUL-terminated texts at the offsets, in their order: of each offset what `text_at` returns. It takes about as
/// long as to sort the offsets and to read each byte twice, however many of the texts overlap; `text_at` for each of
/// them would read an overlapped byte once for each. Error: `AllocError`, if memory runs out.
pub fn texts_at<'a, A: Allocator + Copy + Drop>(
    alloc: A,
    bytes: &'a [u8],
    offsets: &[usize],
) -> Result<Vec<Option<&'a str>, A>, AllocError>
    ensures { IfOk result
        (λ texts. texts_of texts.items ≡ map (text_at bytes.entry.now) offsets.now) }
{
    let mut texts = Vec::with_capacity(alloc, offsets.len())?;
    push_first_texts(bytes, offsets, &mut texts)?;
    // The rest by sorted runs, each of which is read once.
    let later = &offsets[texts.len()..];
    let runs = long_runs_at(alloc, bytes, later)?;
    for offset in later {
        texts.push(text_among(bytes, &runs, *offset))?;
    }
    Ok(texts)
}
