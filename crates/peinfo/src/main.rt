//! Shows what is in PE files, finds the function that covers an RVA, and writes images anew.
#![tactic(auto)]

mod certificates;
mod command;
mod counted_out;
mod debug;
mod digits;
mod engine;
mod exceptions;
mod find;
mod functions;
mod input;
mod outcome;
mod plan;
mod report;
mod rewrite;

ghost use Rattle.std.specs.Prelude.{◌≡◌, ◌↔◌, ◌≤◌, ◌≢◌, map, IsNone, IfErr};
ghost use Rattle.std.specs.String.{string_bytes};
ghost use Rattle.peinfo.specs.Advice.{ReturnsAdvice};
ghost use Rattle.peinfo.specs.FileKinds.{other_kind, starts_with_a_machine};
ghost use Rattle.peinfo.specs.Command.{asked_of};
ghost use Rattle.peinfo.specs.Outcome.{outcome_of};
ghost use Rattle.peinfo.specs.declared.outcome.Outcome.TheVariants.{Misused, FileError};

use command::{Command, command_of};
use counted_out::CountedOut;
use engine::ReportError;
use find::find;
use input::read_all;
use outcome::Outcome;
use pe_image::{Error, PE, ParseMode, ParseOptions};
use plan::plan;
use report::report;
use rewrite::rewrite;
use std::alloc::{AllocError, Allocator};
use std::process::ExitCode;
use std::rt::Files;
use std::{env, fs, io};

const USAGE: &str =
    "usage: peinfo list FILE [--permissive] | at FILE HEXRVA [--chain] | rewrite FILE OUT";

/// The bytes of a file, or the outcome of a failure to read them, which is one line on standard error.
fn bytes_of<R: Files + Eprint + AllocGlobal>(rt: &R, path: &str) -> Result<Vec<u8>, Outcome>
    ensures { IfErr result (λ outcome. outcome ≡ FileError) }
{
    let mut file = match fs::open(rt, path) {
        Ok(file) => file,
        Err(error) => {
            let _ = eprintln!(rt; "peinfo: {path:?} can't be opened: {error}");
            return Err(Outcome::FileError);
        }
    };
    match read_all(rt.alloc(), &mut file) {
        Ok(bytes) => Ok(bytes),
        Err(error) => {
            let _ = eprintln!(rt; "peinfo: {path:?} can't be read: {error}");
            Err(Outcome::FileError)
        }
    }
}

/// A file that was read.
#[derive(Clone, Copy)]
struct Source<'a> {
    path: &'a str,
    bytes: &'a [u8],
}

/// What a file that is not a PE image is by its first bytes, as the end of a message. Objects have no magic number:
/// they start with their machine.
fn other_kind(bytes: &[u8]) -> &'static str
    ensures { result.now ≡ other_kind bytes.now }
{
    if bytes.is_empty() {
        "; the file is empty"
    } else if bytes.starts_with(b"\x7fELF") {
        "; it is an ELF file"
    } else if bytes.starts_with(b"VZ") {
        "; it is a TE image"
    } else if bytes.starts_with(b"!<arch>") {
        "; it is an archive of objects"
    } else if starts_with_a_machine(bytes) {
        "; it looks like a COFF object"
    } else {
        ""
    }
}

/// Whether the first two bytes are `IMAGE_FILE_MACHINE_I386`, `IMAGE_FILE_MACHINE_AMD64` or `IMAGE_FILE_MACHINE_ARM64`.
fn starts_with_a_machine(bytes: &[u8]) -> bool
    ensures { result ≡ starts_with_a_machine bytes.now }
{
    bytes.starts_with(b"\x4c\x01")
        || bytes.starts_with(b"\x64\x86")
        || bytes.starts_with(b"\x64\xaa")
}

/// Prints the error of an image, and what can be done about it.
fn say_refused<R: Eprint>(rt: &R, source: Source, refusal: &Error, advice: &str) {
    let path = source.path;
    let kind = other_kind(source.bytes);
    let _ = match refusal {
        Error::BadMagic(magic) => eprintln!(rt;
            "peinfo: {path:?} is refused: no PE image, its magic number is {magic:#x}{kind}{advice}"
        ),
        _ => eprintln!(rt; "peinfo: {path:?} is refused: {refusal}{kind}{advice}"),
    };
}

/// Where the text of an engine goes.
#[derive(Clone, Copy)]
enum Target<'a> {
    Output,
    File(&'a str),
}

/// What an engine works on: the file that it reads, and where its text goes.
#[derive(Clone, Copy)]
struct Job<'a> {
    source: Source<'a>,
    target: Target<'a>,
}

/// Prints why a text was not written whole.
fn say_unwritten<R: Eprint>(rt: &R, path: &str, target: Target, cause: Option<&io::Error>) {
    let _ = match (target, cause) {
        (Target::Output, Some(error)) => eprintln!(rt;
            "peinfo: the report of {path:?} can't be written to standard output: {error}"
        ),
        (Target::Output, None) => eprintln!(rt;
            "peinfo: the report of {path:?} can't be written to standard output: it takes nothing"
        ),
        (Target::File(out), Some(error)) => eprintln!(rt;
            "peinfo: {out:?} can't be written: {error}"
        ),
        (Target::File(out), None) => eprintln!(rt;
            "peinfo: {out:?} can't be written: it takes nothing"
        ),
    };
}

/// The outcome of an engine's result. A failure is one line on standard error.
fn outcome_of<R: Eprint, W: io::Write>(
    rt: &R,
    job: Job,
    engine_result: Result<(), ReportError>,
    out: &CountedOut<W>,
    advice: &str,
) -> Outcome
    ensures { result ≡ outcome_of engine_result }
{
    match engine_result {
        Ok(()) => Outcome::Done,
        Err(ReportError::Parse(refusal)) => {
            say_refused(rt, job.source, &refusal, advice);
            Outcome::Refused
        }
        Err(ReportError::Write) => {
            say_unwritten(rt, job.source.path, job.target, out.cause());
            Outcome::FileError
        }
    }
}

/// The end of the message that an image has an error in this mode: the option `--permissive`, if permissive mode
/// accepts it.
#[tactic(auto, using(crate::proofs::Unlisted::advised))]
fn advice_on<A: Allocator + Copy + Drop>(
    alloc: A,
    bytes: &[u8],
    mode: ParseMode,
) -> Result<&'static str, AllocError>
    ensures { ReturnsAdvice bytes.now mode result }
{
    if mode == ParseMode::Permissive {
        return Ok("");
    }
    let opts = ParseOptions::default().with_parse_mode(ParseMode::Permissive);
    match PE::parse_without_lists(alloc, bytes, &opts) {
        Ok(_) => Ok("; --permissive lists the rest"),
        Err(Error::Memory(error)) => Err(error),
        Err(_) => Ok(""),
    }
}

/// Lists the image in a file.
fn list<R: Print + Eprint + AllocGlobal>(rt: &R, source: Source, mode: ParseMode) -> Outcome
    ensures { result ≢ Misused }
{
    let opts = ParseOptions::default().with_parse_mode(mode);
    let mut out = CountedOut::new(io::writer(rt));
    let engine_result = report(rt.alloc(), source.bytes, &opts, &mut out);
    let advice = match engine_result {
        Ok(()) | Err(ReportError::Write | ReportError::Parse(Error::Memory(_))) => "",
        // The image is read once more, in permissive mode, to know whether the option helps.
        Err(ReportError::Parse(_)) => advice_on(rt.alloc(), source.bytes, mode).unwrap_or(""),
    };
    let job = Job {
        source,
        target: Target::Output,
    };
    outcome_of(rt, job, engine_result, &out, advice)
}

/// Shows the function that covers an RVA of the image in a file.
fn at<R: Print + Eprint + AllocGlobal>(rt: &R, source: Source, rva: u32) -> Outcome
    ensures { result ≢ Misused }
{
    let mut out = CountedOut::new(io::writer(rt));
    let engine_result = find(rt.alloc(), source.bytes, rva, &mut out);
    let job = Job {
        source,
        target: Target::Output,
    };
    outcome_of(rt, job, engine_result, &out, "")
}

/// Shows the function that covers an RVA of the image in a file, and its records up to the root of their chain.
fn chain_at<R: Print + Eprint + AllocGlobal>(rt: &R, source: Source, rva: u32) -> Outcome
    ensures { result ≢ Misused }
{
    let mut out = CountedOut::new(io::writer(rt));
    let engine_result = plan(rt.alloc(), source.bytes, rva, &mut out);
    let job = Job {
        source,
        target: Target::Output,
    };
    outcome_of(rt, job, engine_result, &out, "")
}

/// Writes the image in a file anew, to a file that must not exist. That file is made once the image's file is read, and
/// stays empty where the image has an error.
fn rewrite_to<R: Files + Eprint + AllocGlobal>(rt: &R, source: Source, target: &str) -> Outcome
    ensures { result ≢ Misused }
{
    let file = match fs::File::create_new(rt, target) {
        Ok(file) => file,
        Err(error) => {
            let _ = eprintln!(rt; "peinfo: {target:?} can't be made: {error}");
            return Outcome::FileError;
        }
    };
    let mut out = CountedOut::new(file);
    let engine_result = rewrite(rt.alloc(), source.bytes, &mut out);
    let job = Job {
        source,
        target: Target::File(target),
    };
    outcome_of(rt, job, engine_result, &out, "")
}

/// Reads the file of a command, and runs the command on its bytes.
fn outcome_of_command<R: Files + Print + Eprint + AllocGlobal>(rt: &R, command: Command) -> Outcome
    ensures { result ≢ Misused }
{
    let path = command.file();
    let bytes = match bytes_of(rt, path) {
        Ok(bytes) => bytes,
        Err(outcome) => return outcome,
    };
    let source = Source {
        path,
        bytes: &bytes,
    };
    match command {
        Command::List { mode, .. } => list(rt, source, mode),
        Command::At { rva, .. } => at(rt, source, rva),
        Command::ChainAt { rva, .. } => chain_at(rt, source, rva),
        Command::Rewrite { out, .. } => rewrite_to(rt, source, out),
    }
}

/// Prints the usage.
fn misused<R: Eprint>(rt: &R) -> Outcome
    ensures { result ≡ Misused }
{
    let _ = eprintln!(rt; "{USAGE}");
    Outcome::Misused
}

/// Runs the command of the arguments.
fn outcome_of_arguments<R: Files + Print + Eprint + AllocGlobal>(
    rt: &R,
    arguments: &[String],
) -> Outcome
    ensures { (result ≡ Misused) ↔ IsNone (asked_of (map string_bytes arguments.now)) }
{
    match command_of(arguments) {
        Some(command) => outcome_of_command(rt, command),
        None => misused(rt),
    }
}

/// Runs the command of the arguments after the program's name, and returns the exit status: 0 done, 1 the image has an
/// error, 2 the arguments are misused, 3 an error of a file or of standard output.
pub fn run<R: Files + Print + Eprint + AllocGlobal>(rt: &R, arguments: &[String]) -> u8
    ensures misused { (result ≡ 2) ↔ IsNone (asked_of (map string_bytes arguments.now)) }
    ensures known { result ≤ 3 }
{
    outcome_of_arguments(rt, arguments).status()
}

/// The arguments after the program's name.
fn arguments_of(rt: &HostRuntime) -> io::Result<Vec<String>> {
    let mut arguments = Vec::new(rt.alloc());
    for argument in env::args(rt)?.skip(1) {
        arguments.push(argument)?;
    }
    Ok(arguments)
}

fn main(rt: HostRuntime) -> ExitCode {
    let status = match arguments_of(&rt) {
        Ok(arguments) => run(&rt, &arguments),
        // An argument that is not UTF-8 is as unknown as any other.
        Err(error) if error.kind() == io::ErrorKind::InvalidData => misused(&rt).status(),
        Err(error) => {
            let _ = eprintln!(rt; "peinfo: the arguments can't be read: {error}");
            Outcome::FileError.status()
        }
    };
    ExitCode::from(status)
}
