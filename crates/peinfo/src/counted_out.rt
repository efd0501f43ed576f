//! A writer that counts its failures, so that a contract can say whether a write failed, and that keeps the cause of
//! the last.

ghost use Rattle.std.specs.Prelude.{◌≡◌, ◌<◌, ◌≤◌, [], length, take, IfSome, IfNone, Some, None};
ghost use Rattle.std.specs.Option.{option_copied};
ghost use Rattle.std.specs.Bool.{OnTrue, OnFalse};
ghost use Rattle.std.specs.Io.KnownBytes.{Appends, Keeps};

use std::io;
use std::io::Write;

/// A writer, how many of its writes failed or took nothing, and the cause of the last failure.
#[derive(Drop)]
pub struct CountedOut<W> {
    writer: W,
    failures: u64,
    cause: Option<io::Error>,
}

impl<W: Write> CountedOut<W> {
    ghost use Rattle.peinfo.specs.Output.{writer_of, failures_of, cause_of, one_more_failure};

    /// Returns a writer without failures so far.
    pub fn new(writer: W) -> CountedOut<W>
        ensures writer { writer_of result ≡ writer }
        ensures failures { failures_of result ≡ 0 }
        ensures cause { cause_of result ≡ None }
    {
        CountedOut {
            writer,
            failures: 0,
            cause: None,
        }
    }

    /// Returns the writer, with what it holds.
    pub fn into_inner(self) -> W
        ensures { result ≡ writer_of self }
    {
        let CountedOut {
            writer,
            failures: _,
            cause: _,
        } = self;
        writer
    }

    /// How many writes failed or took nothing. The count stays at its greatest value.
    pub fn failures(&self) -> u64
        ensures { result ≡ failures_of self.now }
    {
        self.failures
    }

    /// The cause of the last failure. `None` where its write took nothing, and without a failure.
    pub fn cause(&self) -> Option<&io::Error>
        ensures { option_copied result ≡ cause_of self.now }
    {
        self.cause.as_ref()
    }

    /// Writes once, and returns how much of the piece was taken. A write that fails, or takes nothing of a nonempty
    /// piece, is counted as a failure, and returns `None`.
    pub fn put(&mut self, piece: &[u8]) -> Option<usize>
        ensures empty { piece.now ≡ [] → result ≡ Some 0 }
        ensures bound { IfSome result (λ n. n ≤ length piece.now) }
        ensures progress { 0 < length piece.now → IfSome result (λ n. 0 < n) }
        ensures taken { IfSome result (λ n. Appends (W.contents (writer_of self.old))
            (W.contents (writer_of self.new)) (take n piece.now)) }
        ensures same { IfSome result (λ _. failures_of self.new ≡ failures_of self.old) }
        ensures same_cause { IfSome result (λ _. cause_of self.new ≡ cause_of self.old) }
        ensures none { IfNone result (Keeps (W.contents (writer_of self.old))
            (W.contents (writer_of self.new))) }
        ensures counted { IfNone result
            (failures_of self.new ≡ one_more_failure (failures_of self.old)) }
    {
        if piece.is_empty() {
            return Some(0);
        }
        match self.writer.write(piece) {
            Ok(n) if n > 0 => Some(n),
            other => {
                self.failures = self.failures.saturating_add(1);
                self.cause = other.err();
                None
            }
        }
    }
}

ghost use Rattle.peinfo.specs.Output.{writer_of, failures_of, AppendsBeginning, RoseOrFull};

/// Writes the whole text, piece by piece, until a write fails or takes nothing. Returns whether all of it was written.
#[tactic(auto, using(crate::proofs::Writing::steps))]
pub fn put_all<W: Write>(out: &mut CountedOut<W>, text: &[u8]) -> bool
    ensures whole { OnTrue result (Appends (W.contents (writer_of out.old))
        (W.contents (writer_of out.new)) text.now) }
    ensures same { OnTrue result (failures_of out.new ≡ failures_of out.old) }
    ensures beginning { OnFalse result (AppendsBeginning (W.contents (writer_of out.old))
        (W.contents (writer_of out.new)) text.now) }
    ensures counted { OnFalse result (RoseOrFull (failures_of out.old) (failures_of out.new)) }
{
    let mut rest = text;
    while !rest.is_empty() {
        match out.put(rest) {
            None => return false,
            Some(n) => rest = rest.split_at(n).1,
        }
    }
    true
}
