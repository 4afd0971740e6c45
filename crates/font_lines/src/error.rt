//! The errors of lines and of commands.

ghost use Rattle.std.specs.Prelude.{◌≡◌, Err};
ghost use Rattle.font_lines.specs.Error.{answer_text, line_error_of};
ghost use Rattle.font_lines.specs.declared.error.CommandError.{CommandError};

use font_types::DecimalFault;
use std::alloc::AllocError;
use thiserror::Error;

/// Why a line has no result. Its answer has the number.
#[derive(Clone, Copy, Debug, Error)]
pub enum LineError {
    /// No word, or a first word that names no command.
    #[error("unknown command")]
    UnknownCommand = 1,
    /// Too few words or too many.
    #[error("wrong number of words")]
    WordCount = 2,
    /// A word that is not hexadecimal, or has another number of bytes.
    #[error("not hexadecimal bytes of the type")]
    NotHexadecimal = 3,
    /// A word that is not a decimal.
    #[error("not a decimal number")]
    NotDecimal = 4,
    /// A number outside the range of its type.
    #[error("number out of range")]
    OutOfRange = 5,
    /// A word that is not an integer: an optional `-`, and one or more digits.
    #[error("not an integer")]
    NotInteger = 6,
}

impl LineError {
    /// Returns the answer to a line that has the error.
    #[tactic(auto, using(crate::proofs::Integers::integers))]
    pub fn answer(self) -> &'static [u8]
        ensures { result.now ≡ answer_text (Err self) }
    {
        match self {
            LineError::UnknownCommand => b"error 1",
            LineError::WordCount => b"error 2",
            LineError::NotHexadecimal => b"error 3",
            LineError::NotDecimal => b"error 4",
            LineError::OutOfRange => b"error 5",
            LineError::NotInteger => b"error 6",
        }
    }
}

impl From<DecimalFault> for LineError {
    ghost from_gives = { λ fault error. error ≡ line_error_of fault };

    fn from(fault: DecimalFault) -> LineError {
        match fault {
            DecimalFault::Syntax => LineError::NotDecimal,
            DecimalFault::OutOfRange => LineError::OutOfRange,
        }
    }
}

/// Why a command appends no answer.
#[derive(Clone, Copy, Debug, Error)]
pub enum CommandError {
    /// Out of memory for the answer.
    #[error("memory")]
    Memory(AllocError),
    /// The line has an error.
    #[error("{0}")]
    Line(LineError),
}

impl From<AllocError> for CommandError {
    ghost from_gives = { λ error reason. reason ≡ CommandError.Memory error };

    fn from(error: AllocError) -> CommandError {
        CommandError::Memory(error)
    }
}

impl From<LineError> for CommandError {
    ghost from_gives = { λ error reason. reason ≡ CommandError.Line error };

    fn from(error: LineError) -> CommandError {
        CommandError::Line(error)
    }
}
