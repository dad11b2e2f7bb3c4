//! Reads the commands of a protocol: a word, one space and a number.
ghost use Rattle.std.specs.Prelude.{◌≡◌, ◌↔◌, ℕ, List, IfSome, IfNone, IfErr, Ok};
ghost use Rattle.atoi_uses.specs.Commands.{HasWord, IsCommand, IsNoCommand};
ghost use Rattle.atoi_uses.specs.declared.commands.Command.{Command};
ghost use Rattle.atoi_uses.specs.declared.commands.Word.{Word};

use atoi_core::laws::one_number;
use atoi_simd::{AtoiSimdError, parse};
use std::error::Error;
use std::fmt;

/// What a command does to a counter.
#[derive(Clone, Copy, Debug, PartialEq, Eq)]
pub enum Word {
    /// `SET`: the counter becomes the number.
    Set,
    /// `INCRBY`: the number is added to the counter.
    IncrBy,
}

/// A command. `INCRBY -7` has the word `IncrBy` and the number -7.
#[derive(Clone, Copy, Debug, PartialEq, Eq)]
pub struct Command {
    pub word: Word,
    pub number: i64,
}

/// Why a line is not a command.
#[derive(Clone, Copy, Debug, PartialEq, Eq)]
pub enum CommandError<'a> {
    /// The line does not begin with `SET` or `INCRBY` and a space.
    UnknownWord,
    /// What follows the word and the space is not a number of type `i64`. Holds the error of
    /// `atoi_simd::parse`.
    BadNumber(AtoiSimdError<'a>),
}

impl fmt::Display for CommandError<'_> {
    ghost use Rattle.std.specs.Prelude.{Some};
    ghost use Rattle.atoi_uses.specs.Commands.{error_text};

    ghost output = { λ error. Some (error_text error) };

    fn fmt<W: fmt::Write>(&self, f: &mut fmt::Formatter<W>) -> fmt::Result {
        match *self {
            CommandError::UnknownWord => write!(f, "unknown word"),
            CommandError::BadNumber(cause) => write!(f, "no number after the word: {cause}"),
        }
    }
}

impl Error for CommandError<'_> {}

/// Parses all of `line` as a command: the word `SET` or `INCRBY` in capitals, one space, and a
/// number of type `i64`, which may have a sign and leading zeros. Nothing else is accepted, not
/// even a line feed at the end.
///
/// # Errors
///
/// Each variant of `CommandError` says when it is returned.
pub fn read_command(line: &[u8]) -> Result<Command, CommandError<'_>>
    ensures exact { (command : Command) → (result ≡ Ok command) ↔ IsCommand line.now command }
    ensures refused { IfErr result (λ error. IsNoCommand line.now error) }
{
    one_number::<i64>();
    let Some((word, text)) = word_and_text(line) else {
        return Err(CommandError::UnknownWord);
    };
    match parse::<i64, true, true>(text) {
        Ok(number) => Ok(Command { word, number }),
        Err(cause) => Err(CommandError::BadNumber(cause)),
    }
}

fn word_and_text(line: &[u8]) -> Option<(Word, &[u8])>
    ensures some { IfSome result (λ found. HasWord line.now found.0 found.1.now) }
    ensures none { IfNone result ((word : Word) (text : List ℕ) → ¬ HasWord line.now word text) }
{
    match line {
        [b'S', b'E', b'T', b' ', text @ ..] => Some((Word::Set, text)),
        [b'I', b'N', b'C', b'R', b'B', b'Y', b' ', text @ ..] => Some((Word::IncrBy, text)),
        _ => None,
    }
}
