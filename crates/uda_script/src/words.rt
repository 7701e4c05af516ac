//! The arguments of the program.

use crate::fault::ProgramFault;
use clap::error::ErrorKind;
use clap::{Arg, ArgAction, Command, Error};
use std::alloc::Global;

/// The task of the arguments.
#[derive(Debug, Drop, PartialEq, Eq)]
pub enum ProgramTask<'w> {
    /// One Get Unit Status through the rings.
    Probe,
    /// A script over images.
    Run {
        /// The script's file.
        script: &'w str,
        /// The arguments of units 0 to 3, or of the first of them.
        units: Vec<&'w str>,
    },
}

/// Reads the arguments that follow the program's name.
///
/// # Errors
///
/// - `Usage` for anything except `probe` without more, or `run` with a script's file and at most four
///   images. An argument that begins with `-`, except `-` itself, is rejected before the grammar of options
///   reads it.
/// - `NoMemory` if memory allocation fails.
pub fn read_words<'w>(
    alloc: Global,
    words: &'w [&'w str],
) -> Result<ProgramTask<'w>, ProgramFault> {
    if words
        .iter()
        .any(|word| word.starts_with('-') && *word != "-")
    {
        return Err(ProgramFault::Usage);
    }
    match asked(alloc, words) {
        Ok(Some(task)) => Ok(task),
        Ok(None) => Err(ProgramFault::Usage),
        Err(error) => Err(fault_of(error.kind())),
    }
}

// Returns the command line's grammar: `probe`, or `run SCRIPT [UNIT0 [UNIT1 [UNIT2 [UNIT3]]]]`.
fn command_line_grammar<'w>(alloc: Global) -> Result<Command<'w>, Error> {
    let script = Arg::new(alloc, "script")
        .required(true)
        .action(ArgAction::Set);
    let units = Arg::new(alloc, "units")
        .num_args(0..=4)
        .action(ArgAction::Append);
    let run = Command::new(alloc, "run").arg(script)?.arg(units)?;
    Ok(
        Command::new(alloc, "uda")
            .no_binary_name(true)
            .disable_help_subcommand(true)
            .subcommand_required(true)
            .subcommand(Command::new(alloc, "probe"))?
            .subcommand(run)?,
    )
}

// Returns the task of the arguments by the grammar.
fn asked<'w>(alloc: Global, words: &'w [&'w str]) -> Result<Option<ProgramTask<'w>>, Error> {
    let matches = command_line_grammar(alloc)?.try_get_matches_from(words)?;
    Ok(match matches.subcommand() {
        Some(("probe", _)) => Some(ProgramTask::Probe),
        Some(("run", found)) => match found.get_str("script") {
            Some(script) => Some(ProgramTask::Run {
                script,
                units: match found.get_strs("units") {
                    Some(units) => Vec::from_slice(alloc, units)?,
                    None => Vec::new(alloc),
                },
            }),
            None => None,
        },
        _ => None,
    })
}

fn fault_of(kind: ErrorKind) -> ProgramFault {
    match kind {
        ErrorKind::OutOfMemory => ProgramFault::NoMemory,
        _ => ProgramFault::Usage,
    }
}
