//! The errors of a script that is read from a stream.

use std::error::Error;
use std::fmt;
use uda_grammar::{Expected, ScriptError};

/// The reason why a script that is read from a stream stopped.
#[derive(Clone, Copy, Debug, PartialEq, Eq)]
pub enum TextError {
    /// The script's text can't be read.
    Unreadable,
    /// A line is not a statement.
    Syntax {
        /// The line's number, from 1.
        line: u64,
        /// The part that is expected in the line.
        expected: Expected,
    },
    /// An error of a script's run. It is never `Syntax` or `TooManyLines`.
    Script(ScriptError),
}

impl From<ScriptError> for TextError {
    ghost use Rattle.std.specs.Prelude.{◌≡◌};
    ghost use Rattle.uda_script_run.specs.declared.text_error.TextError.TheVariants as error;

    ghost from_gives = { λ given made. made ≡ error.Script given };

    fn from(error: ScriptError) -> TextError {
        TextError::Script(error)
    }
}

impl fmt::Display for TextError {
    fn fmt<W: fmt::Write>(&self, f: &mut fmt::Formatter<W>) -> fmt::Result {
        match self {
            TextError::Unreadable => f.write_str("script: cannot read"),
            TextError::Syntax { line, expected } => write!(f, "line {line}, {expected}"),
            TextError::Script(error) => write!(f, "{error}"),
        }
    }
}

impl Error for TextError {}
