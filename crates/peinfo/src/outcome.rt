//! The outcome of a run, and its exit status.

ghost use Rattle.std.specs.Prelude.{◌≡◌};

/// The outcome of a run.
#[derive(Clone, Copy, Debug)]
pub enum Outcome {
    /// The text was written.
    Done,
    /// The image has an error, or memory ran out.
    Refused,
    /// The arguments ask for no command.
    Misused,
    /// A file or standard output failed.
    FileError,
}

impl Outcome {
    ghost use Rattle.peinfo.specs.Outcome.{status_of};

    /// The exit status: 0, 1, 2 or 3 in the order of the variants.
    pub fn status(self) -> u8
        ensures { result ≡ status_of self }
    {
        match self {
            Outcome::Done => 0,
            Outcome::Refused => 1,
            Outcome::Misused => 2,
            Outcome::FileError => 3,
        }
    }
}
