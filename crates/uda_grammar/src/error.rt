//! The errors of reading and running a script.

use std::error::Error;
use std::fmt;

/// The reason why a script could not be read, or was not run to its end.
#[derive(Clone, Copy, Debug, PartialEq, Eq)]
pub enum ScriptError {
    /// Memory allocation failed.
    NoMemory,
    /// A line has none of the forms.
    Syntax {
        /// The line's number, from 1.
        line: u64,
    },
    /// More than [`SCRIPT_LIMIT`](crate::SCRIPT_LIMIT) requests.
    TooManyLines,
    /// The data ended before a line had all its bytes.
    ShortData {
        /// The line's number, from 1.
        line: u64,
    },
    /// A read of data failed.
    Read,
    /// A write failed, or wrote no byte.
    Write,
}

impl fmt::Display for ScriptError {
    ghost use Rattle.std.specs.Prelude.{Some};
    ghost use Rattle.uda_grammar.specs.Display.{script_error_display};

    ghost output = { λ error. Some (script_error_display error) };

    fn fmt<W: fmt::Write>(&self, f: &mut fmt::Formatter<W>) -> fmt::Result {
        match self {
            ScriptError::NoMemory => f.write_str("out of memory"),
            ScriptError::Syntax { line } => write!(f, "line {line}: syntax"),
            ScriptError::TooManyLines => f.write_str("more than 4096 requests"),
            ScriptError::ShortData { line } => write!(f, "line {line}: data ended"),
            ScriptError::Read => f.write_str("read failed"),
            ScriptError::Write => f.write_str("write failed"),
        }
    }
}

impl Error for ScriptError {}
