//! What is noted of the streams and images of a script's run, so that a fault can tell its reason.

use crate::fault::{Fault, STANDARD_ERROR, STANDARD_INPUT, STANDARD_OUTPUT};
use crate::reason::{Reason, ScriptReason};
use crate::streams::{InputStream, LastError, Noting};
use std::alloc::{AllocError, Global};
use std::cell::Cell;
use std::io;
use std::io::BufReader;
use uda_grammar::{Expected, ScriptError};
use uda_script_run::TextError;
use uda50_files::Failures;
use uda50_script_text::{Mistake, ScriptLine, ScriptNotes, ScriptReader};

/// The reader of a script that is executed, with a buffer.
pub(crate) type ScriptText<'n> = BufReader<ScriptReader<'n, Noting<'n, InputStream>>>;

/// What is noted of the streams and images of a run.
#[derive(Drop)]
pub(crate) struct RunNotes {
    lines: ScriptNotes,
    script: LastError,
    /// The last error of standard input.
    pub(crate) input: LastError,
    /// The last error of standard output.
    pub(crate) out: LastError,
    /// Whether blocks were refused, since standard output is a terminal.
    pub(crate) refused: Cell<bool>,
    /// The last error of standard error.
    pub(crate) report: LastError,
    /// The failures of the images of units 0 to 3.
    pub(crate) failures: Vec<Failures>,
}

impl RunNotes {
    /// Makes the notes of a run that has not begun.
    pub(crate) fn new(alloc: Global) -> Result<RunNotes, AllocError> {
        Ok(RunNotes {
            lines: ScriptNotes::new(alloc)?,
            script: LastError::none(),
            input: LastError::none(),
            out: LastError::none(),
            refused: Cell::new(false),
            report: LastError::none(),
            failures: no_failures(alloc)?,
        })
    }

    /// Makes the reader of a script.
    pub(crate) fn text(&self, alloc: Global, input: InputStream) -> io::Result<ScriptText<'_>> {
        let noting = Noting::new(input, &self.script);
        let reader = ScriptReader::new(alloc, &self.lines, noting)?;
        BufReader::new(alloc, reader)
    }

    /// Returns the fault of a script that stopped.
    pub(crate) fn fault<'w>(&self, script: &'w str, error: TextError) -> Fault<'w> {
        let name = match error {
            TextError::Script(ScriptError::Read) => STANDARD_INPUT,
            TextError::Script(ScriptError::Write) => self.unwritable(),
            TextError::Script(ScriptError::NoMemory) => "uda50",
            _ => script,
        };
        Fault::new(name, self.reason(error))
    }

    // Returns the reason why a script stopped.
    fn reason(&self, error: TextError) -> Reason {
        match error {
            TextError::Unreadable => reason_of(&self.script, Reason::Unreadable),
            TextError::Syntax { line, expected } => self.mistake(line, expected),
            TextError::Script(error) => self.reason_of_run(error),
        }
    }

    // Returns the reason why the run of a script stopped.
    fn reason_of_run(&self, error: ScriptError) -> Reason {
        match error {
            ScriptError::NoMemory => Reason::NoMemory,
            ScriptError::ShortData { line } => Reason::Script(ScriptReason::DataEnded(line)),
            ScriptError::Read => reason_of(&self.input, Reason::Unreadable),
            ScriptError::Write => self.reason_of_output(),
            ScriptError::Syntax { .. } | ScriptError::TooManyLines => Reason::Unreadable,
        }
    }

    // Returns the reason for a line with this number that is not a statement.
    fn mistake(&self, line: u64, expected: Expected) -> Reason {
        let noted = self.lines.faulty_line();
        match noted.and_then(|noted| mistake(line, &noted)) {
            Some(reason) => reason,
            None => Reason::Script(ScriptReason::Syntax {
                line,
                mistake: Mistake::at(expected),
            }),
        }
    }

    // Returns the reason why standard output or standard error can't be written.
    fn reason_of_output(&self) -> Reason {
        match self.out.get() {
            Some(_) if self.refused.get() => Reason::Script(ScriptReason::BlocksToTerminal),
            Some(error) => Reason::of_stream(error),
            None => reason_of(&self.report, Reason::Unwritable),
        }
    }

    // Returns the name of standard output or standard error, whichever can't be written.
    fn unwritable(&self) -> &'static str {
        match (self.out.is_some(), self.report.is_some()) {
            (true, _) => STANDARD_OUTPUT,
            (false, true) => STANDARD_ERROR,
            (false, false) => "standard output or error",
        }
    }
}

// Makes the failures of the images of units 0 to 3, on which nothing failed.
fn no_failures(alloc: Global) -> Result<Vec<Failures>, AllocError> {
    let mut all = Vec::new(alloc);
    for _ in 0..4 {
        push(&mut all, Failures::none(alloc)?)?;
    }
    Ok(all)
}

// Adds the failures of an image.
fn push(all: &mut Vec<Failures>, failures: Failures) -> Result<(), AllocError> {
    all.push(failures).map_err(AllocError::from)
}

// Returns the reason of a stream's last error, or another if there was none.
fn reason_of(last: &LastError, other: Reason) -> Reason {
    match last.get() {
        Some(error) => Reason::of_stream(error),
        None => other,
    }
}

/// Returns the reason why the line with this number is not a statement, if it has a mistake.
pub(crate) fn mistake(number: u64, line: &ScriptLine) -> Option<Reason> {
    let mistake = line.mistake()?;
    match line.byte_order_mark() {
        Some(mark) if number == 1 => Some(Reason::Script(ScriptReason::ByteOrderMark(mark))),
        _ => Some(Reason::Script(ScriptReason::Syntax {
            line: number,
            mistake,
        })),
    }
}
