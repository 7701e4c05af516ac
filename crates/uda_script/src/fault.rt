//! The faults of the program. Their texts are the lines that it prints.

use std::alloc::AllocError;
use std::io::Write;
use thiserror::Error;
use uda_grammar::ScriptError;
use uda_image::ImageError;
use uda_mem::NoMemory;

/// The reason why the program ended without completing its task.
#[derive(Debug, Drop, Error)]
pub enum ProgramFault {
    /// The arguments are invalid.
    #[error("uda: usage")]
    Usage,
    /// Memory allocation failed.
    #[error("uda: out of memory")]
    NoMemory,
    /// No file can be opened to replace a closed standard stream.
    #[error("uda: standard streams: cannot open")]
    Streams,
    /// A unit's image can't be used: it can't be opened, its length is not a multiple of 512, or it has
    /// more than 891,072 blocks.
    #[error("uda: unit {unit}: {error}")]
    Image {
        /// The unit's number.
        unit: usize,
        /// The reason.
        error: ImageError,
    },
    /// The script's file can't be read.
    #[error("uda: script: cannot read")]
    ScriptUnreadable,
    /// The script has more than 1,048,576 bytes.
    #[error("uda: script: too long")]
    ScriptTooLong,
    /// A line of the script has none of the forms.
    #[error("uda: line {line}: syntax")]
    Syntax {
        /// The line's number, from 1.
        line: u64,
    },
    /// The script makes more than 4,096 requests.
    #[error("uda: more than 4096 requests")]
    TooManyLines,
    /// The data ended before a line had all its bytes.
    #[error("uda: line {line}: data ended")]
    ShortData {
        /// The line's number, from 1.
        line: u64,
    },
    /// A read of the data failed.
    #[error("uda: read failed")]
    Read,
    /// Standard output or standard error could not be written.
    #[error("uda: write failed")]
    Write,
    /// Writes to a unit's image could not be synced to its medium.
    #[error("uda: unit {unit}: cannot be written out")]
    SyncFailed {
        /// The unit's number.
        unit: usize,
    },
}

impl ProgramFault {
    ghost use Rattle.std.specs.Prelude.{◌≡◌};
    ghost use Rattle.uda_script.specs.Statuses.{exit_status_of};

    /// Returns the fault of a unit's image that can't be used.
    pub fn image(unit: usize, error: ImageError) -> ProgramFault {
        match error {
            ImageError::NoMemory => ProgramFault::NoMemory,
            error => ProgramFault::Image { unit, error },
        }
    }

    /// Prints the fault's line, once. Ignores a write error.
    pub fn print<V: Write>(&self, report: &mut V) {
        let _ = writeln!(report, "{self}");
    }

    /// Returns the program's exit status.
    pub fn status(&self) -> u8
        ensures status { result ≡ exit_status_of self.now }
    {
        match self {
            ProgramFault::Usage => 2,
            _ => 1,
        }
    }
}

impl From<NoMemory> for ProgramFault {
    fn from(_: NoMemory) -> Self {
        ProgramFault::NoMemory
    }
}

impl From<AllocError> for ProgramFault {
    fn from(_: AllocError) -> Self {
        ProgramFault::NoMemory
    }
}

impl From<ScriptError> for ProgramFault {
    fn from(error: ScriptError) -> Self {
        match error {
            ScriptError::NoMemory => ProgramFault::NoMemory,
            ScriptError::Syntax { line } => ProgramFault::Syntax { line },
            ScriptError::TooManyLines => ProgramFault::TooManyLines,
            ScriptError::ShortData { line } => ProgramFault::ShortData { line },
            ScriptError::Read => ProgramFault::Read,
            ScriptError::Write => ProgramFault::Write,
        }
    }
}
