//! The program's entry.
ghost use Rattle.std.specs.Prelude.{◌≡◌, ◌≢◌, ◌≤◌};
ghost use Rattle.std.specs.IoError.{error_kind};

use crate::copy::copy;
use crate::create::create;
use crate::decode::decode;
use crate::dump::dump;
use crate::fault::Fault;
use crate::info::info;
use crate::outcome::Outcome;
use crate::reason::Reason;
use crate::run::run;
use crate::script_help::script_help;
use crate::streams::fill_closed_streams;
use crate::trace::trace;
use crate::unreadable::first_unreadable;
use clap::Error;
use clap::error::ErrorKind as UsageError;
use std::alloc::{AllocError, Global};
use std::io;
use std::io::{BufWriter, ErrorKind, Write};
use uda50_arguments::{ParsedArguments, Task, read_arguments};
use uda50_show::{DriveTypeEntry, EscapedBytes, EscapedName, is_control};

/// The exit status for invalid arguments.
const USAGE: u8 = 2;

/// The exit status for a fault.
const FAULT: u8 = 1;

/// Executes the task of the arguments, of which the first is the program's name. Returns the exit status:
///
/// - 0 if all succeeded, or if the reader of standard output closed it;
/// - 1 after a fault, which has a line on standard error;
/// - 2 for invalid arguments;
/// - 3 if a request failed, blocks were lost, or a packet was invalid.
pub fn program(rt: &HostRuntime, arguments: &[&str]) -> u8
    ensures status { result ≤ 3 }
{
    let Some(held) = fill_closed_streams(rt) else {
        return report(rt, &Fault::new("standard streams", Reason::NoSuchFile));
    };
    let drives = DriveTypeEntry::names();
    let is_escaped = has_control_characters(arguments);
    let status = match read_arguments(rt.alloc(), arguments, &drives) {
        ParsedArguments::Text { .. } if is_escaped => print_escaped(rt, arguments, &drives),
        ParsedArguments::Text { text, usage } => print_text(rt, &text, usage.as_ref()),
        ParsedArguments::Task(task) => match perform(rt, &task) {
            Ok(outcome) => outcome.status(),
            Err(fault) => report(rt, &fault),
        },
    };
    drop(held);
    status
}

/// Ends a program whose arguments can't be read, and returns the exit status.
pub fn unreadable_arguments(rt: &HostRuntime, error: &io::Error) -> u8
    ensures memory { error_kind error.now ≡ ErrorKind.OutOfMemory → result ≡ 1 }
    ensures usage { error_kind error.now ≢ ErrorKind.OutOfMemory → result ≡ 2 }
{
    if error.kind() == ErrorKind::OutOfMemory {
        let _ = eprintln!(rt; "uda50: out of memory");
        return FAULT;
    }
    print_unreadable(rt);
    USAGE
}

// Names the first argument that is not valid UTF-8.
fn print_unreadable(rt: &HostRuntime) {
    let _ = match first_unreadable(rt) {
        Some((number, bytes)) => {
            let shown = EscapedBytes(&bytes);
            eprintln!(rt; "uda50: argument {number}, \"{shown}\", is not valid UTF-8")
        }
        None => eprintln!(rt; "uda50: an argument is not valid UTF-8"),
    };
}

// Returns whether an argument has a control character.
fn has_control_characters(arguments: &[&str]) -> bool {
    arguments.iter().any(|argument| argument.chars().any(|character| is_control(character)))
}

// Prints the text of arguments as that of the same arguments with escapes, so that it has none of their
// control characters. Returns the exit status.
fn print_escaped(rt: &HostRuntime, arguments: &[&str], drives: &[&'static str]) -> u8
    ensures { result ≤ 2 }
{
    match escaped(rt.alloc(), arguments) {
        Ok(escaped) => print_text_of(rt, &escaped, drives),
        Err(_) => report(rt, &Fault::new("uda50", Reason::NoMemory)),
    }
}

// Returns arguments with escapes in place of their control characters.
fn escaped(alloc: Global, arguments: &[&str]) -> Result<Vec<String>, AllocError> {
    let mut escaped = Vec::new(alloc);
    for argument in arguments {
        let argument = format!(in alloc; "{}", EscapedName(argument))?;
        escaped.push(argument)?;
    }
    Ok(escaped)
}

// Prints the text of arguments that are no task, and returns the exit status.
fn print_text_of(rt: &HostRuntime, arguments: &[String], drives: &[&'static str]) -> u8
    ensures { result ≤ 2 }
{
    let borrowed: Result<Vec<&str>, AllocError> = arguments
        .iter()
        .map(|argument| argument.as_str())
        .collect(rt.alloc());
    let Ok(arguments) = borrowed else {
        return report(rt, &Fault::new("uda50", Reason::NoMemory));
    };
    match read_arguments(rt.alloc(), &arguments, drives) {
        ParsedArguments::Text { text, usage } => print_text(rt, &text, usage.as_ref()),
        ParsedArguments::Task(_task) => {
            let _ = eprintln!(rt; "uda50: an argument has control characters");
            USAGE
        }
    }
}

// Prints the help, the version, or the error of the arguments, and returns the exit status.
fn print_text(rt: &HostRuntime, text: &Error, usage: Option<&String>) -> u8
    ensures { result ≤ 2 }
{
    if text.kind() == UsageError::OutOfMemory {
        return report(rt, &Fault::new("uda50", Reason::NoMemory));
    }
    let printed = text.print(rt);
    if let Some(usage) = usage {
        let _ = eprintln!(rt; "\n{usage}");
    }
    match printed {
        _ if text.use_stderr() => USAGE,
        Ok(()) => 0,
        Err(error) => report(rt, &Fault::from(error)),
    }
}

// Prints a fault's line, and returns its exit status. It is no fault if the reader of standard output
// closed it.
fn report(rt: &HostRuntime, fault: &Fault<'_>) -> u8
    ensures { result ≤ 1 }
{
    if fault.is_closed_output() {
        return 0;
    }
    fault.print(rt);
    FAULT
}

// Executes a task with buffered output.
fn perform<'w>(rt: &HostRuntime, task: &Task<'w>) -> Result<Outcome, Fault<'w>> {
    let mut out = BufWriter::new(rt.alloc(), rt.stdout())?;
    let done = perform_with(rt, task, &mut out);
    let flushed = out.flush();
    drop(out.into_parts());
    let outcome = done?;
    flushed?;
    Ok(outcome)
}

fn perform_with<'w, W: Write + Drop>(
    rt: &HostRuntime,
    task: &Task<'w>,
    out: &mut BufWriter<W>,
) -> Result<Outcome, Fault<'w>> {
    match task {
        Task::Info { images, json } => info(rt, images.as_slice(), *json, out),
        Task::Dump(asked) => dump(rt, asked, out),
        Task::Create(asked) => create(rt, asked),
        Task::Decode { file } => decode(rt, file, out),
        Task::Run(asked) => run(rt, asked),
        Task::Trace { script, units } => trace(rt, script, units.as_slice(), out),
        Task::Copy(asked) => copy(rt, asked, out),
        Task::ScriptHelp => script_help(out),
    }
}
