//! `uda50 run --check`: names the mistakes of a script.

use crate::fault::Fault;
use crate::notes::mistake;
use crate::outcome::Outcome;
use crate::reason::{Reason, ScriptReason};
use crate::streams::{InputStream, stream_name};
use uda50_script_text::{LineReader, ScriptLine};

/// The most mistakes that are named.
const MOST_NAMED: u32 = 100;

/// Prints a fault's line for each line of a script that is not a statement, up to a number of them. It
/// executes nothing.
pub(crate) fn check<'w>(rt: &HostRuntime, script: &'w str) -> Result<Outcome, Fault<'w>> {
    let name = stream_name(script);
    let text = InputStream::open(rt, script)?;
    let mut lines = LineReader::new(rt.alloc(), text)?;
    let mut mistakes = 0u32;
    for number in 1..u64::MAX {
        let Some(line) = next_line(name, &mut lines)? else {
            break;
        };
        if mistakes >= MOST_NAMED {
            return Err(Fault::new(name, Reason::Script(ScriptReason::ManyMistakes(mistakes))));
        }
        if is_reported(rt, name, number, &line) {
            mistakes = mistakes.saturating_add(1);
        }
    }
    Ok(if mistakes > 0 {
        Outcome::FaultReported
    } else {
        Outcome::Done
    })
}

// Reads the next line.
fn next_line<'w>(
    name: &'w str,
    lines: &mut LineReader<InputStream>,
) -> Result<Option<ScriptLine>, Fault<'w>> {
    match lines.next_line() {
        Ok(line) => Ok(line),
        Err(error) => Err(Fault::new(name, Reason::of_stream(error))),
    }
}

// Prints the fault of a line, if it has a mistake, and returns whether it has one.
fn is_reported(rt: &HostRuntime, name: &str, number: u64, line: &ScriptLine) -> bool {
    match mistake(number, line) {
        Some(reason) => {
            Fault::new(name, reason).print(rt);
            true
        }
        None => false,
    }
}
