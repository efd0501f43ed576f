//! The arguments of the command line: which command they ask for, if any.

ghost use Rattle.std.specs.Prelude.{◌≡◌, ◌≤◌, length, map};
ghost use Rattle.std.specs.Option.{option_map};
ghost use Rattle.std.specs.String.{string_bytes};
ghost use Rattle.pe_core.specs.HexDigits.{number_after};

use pe_core::hex_digit;
use pe_image::ParseMode;

/// A command of `peinfo`.
#[derive(Drop)]
pub enum Command<'a> {
    /// Shows the image in a file.
    List { file: &'a str, mode: ParseMode },
    /// Shows the function that covers an RVA of the image in a file.
    At { file: &'a str, rva: u32 },
    /// Shows that function, and its unwind records up to the root of their chain.
    ChainAt { file: &'a str, rva: u32 },
    /// Writes the image in a file anew, to another file.
    Rewrite { file: &'a str, out: &'a str },
}

impl<'a> Command<'a> {
    ghost use Rattle.peinfo.specs.Command.{file_of};

    /// The file that the command reads.
    pub fn file(&self) -> &'a str
        ensures { result.now ≡ file_of self.now }
    {
        match self {
            Command::List { file, .. } => file,
            Command::At { file, .. } => file,
            Command::ChainAt { file, .. } => file,
            Command::Rewrite { file, .. } => file,
        }
    }
}

ghost use Rattle.peinfo.specs.Command.{flag_mode, asked_at, asked_of, asked_by, rva_of, one_argument};

/// The mode that the arguments after the file ask for.
#[tactic(auto, using(crate::proofs::Words::shapes))]
fn mode_of(arguments: &[String]) -> Option<ParseMode>
    ensures { result ≡ flag_mode (map string_bytes arguments.now) }
{
    match arguments {
        [] => Some(ParseMode::Strict),
        [argument] if argument.as_str() == "--permissive" => Some(ParseMode::Permissive),
        _ => None,
    }
}

/// The number of at most eight hexadecimal digits.
#[tactic(auto, using(crate::proofs::Numbers::steps), unfolding(pe_core::specs::HexDigits::number_after))]
fn number_of(digits: &[u8]) -> Option<u32>
    requires { length digits.now ≤ 8 }
    ensures { result ≡ number_after 0 digits.now }
{
    let mut number = 0u64;
    for code in digits {
        let digit = hex_digit(u16::from(*code))?;
        number = 16 * number + u64::from(digit);
    }
    // Eight digits fit 32 bits.
    Some(number as u32)
}

/// The RVA in an argument of one to eight hexadecimal digits.
fn rva_of(argument: &[u8]) -> Option<u32>
    ensures { result ≡ rva_of argument.now }
{
    if argument.is_empty() || argument.len() > 8 {
        return None;
    }
    number_of(argument)
}

/// The command of the arguments after `at` and the file.
#[tactic(auto, using(crate::proofs::Words::shapes))]
fn asked_at<'a>(file: &'a str, arguments: &[String]) -> Option<Command<'a>>
    ensures { option_map asked_by result ≡ asked_at file.entry.now
        (map string_bytes arguments.now) }
{
    match arguments {
        [argument] => {
            let rva = rva_of(argument.as_bytes())?;
            Some(Command::At { file, rva })
        }
        [argument, flag] if flag.as_str() == "--chain" => {
            let rva = rva_of(argument.as_bytes())?;
            Some(Command::ChainAt { file, rva })
        }
        _ => None,
    }
}

/// The argument after the file, if it is the only one.
#[tactic(auto, using(crate::proofs::Words::shapes))]
fn one_argument<'a>(arguments: &'a [String]) -> Option<&'a str>
    ensures { option_map
        (λ argument. argument.now) result ≡ one_argument (map string_bytes arguments.now) }
{
    match arguments {
        [argument] => Some(argument.as_str()),
        _ => None,
    }
}

/// The command of the arguments after the program's name. `None` where they are misused.
#[tactic(auto, using(crate::proofs::Words::shapes))]
pub fn command_of<'a>(arguments: &'a [String]) -> Option<Command<'a>>
    ensures { option_map asked_by result ≡ asked_of (map string_bytes arguments.now) }
{
    match arguments {
        [name, file, rest @ ..] if name.as_str() == "list" => {
            let mode = mode_of(rest)?;
            Some(Command::List { file, mode })
        }
        [name, file, rest @ ..] if name.as_str() == "at" => asked_at(file, rest),
        [name, file, rest @ ..] if name.as_str() == "rewrite" => {
            let out = one_argument(rest)?;
            Some(Command::Rewrite { file, out })
        }
        _ => None,
    }
}
