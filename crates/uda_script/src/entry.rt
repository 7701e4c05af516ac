//! The program's entry.

ghost use Rattle.std.specs.Prelude.{◌≡◌, ◌≢◌, ◌≤◌, OnOk};
ghost use Rattle.std.specs.Io.KnownBytes.{Appends};
ghost use Rattle.uda_script.specs.Hexadecimal.{byte_texts_from};
ghost use Rattle.uda_script.specs.Probe.{probe_text};
ghost use Rattle.std.specs.IoError.{error_kind};
ghost use Rattle.uda_script.specs.Statuses.{exit_status_of};

use crate::fault::ProgramFault;
use crate::hexadecimal::hexadecimal;
use crate::probe::probe;
use crate::run::{StandardStreams, run_script_file};
use crate::words::{ProgramTask, read_words};
use std::alloc::Global;
use std::io;
use std::io::{ErrorKind, Read, Write};

/// Executes the task of the arguments, which follow the program's name, with these three as the standard
/// streams.
///
/// Returns the exit status: 0 for success, 1 after a fault, or 2 if the arguments are invalid. Writes a
/// fault's line to `report`.
///
/// `probe` writes the end message of one Get Unit Status to `out`, 16 bytes a line. `run` runs a script
/// over images in files, with data from `input`. It reads exactly the data that the script needs.
pub fn program<R: Read + Drop, W: Write + Drop, V: Write + Drop>(
    rt: &HostRuntime,
    words: &[&str],
    input: R,
    out: W,
    report: V,
) -> u8
    ensures status { result ≤ 2 }
{
    let mut streams = StandardStreams { input, out, report };
    let done = match read_words(rt.alloc(), words) {
        Ok(ProgramTask::Probe) => print_probe(rt.alloc(), &mut streams.out),
        Ok(ProgramTask::Run { script, units }) => run_script_file(rt, script, &units, &mut streams),
        Err(fault) => Err(fault),
    };
    match done {
        Ok(()) => 0,
        Err(fault) => report_fault(&fault, &mut streams.report),
    }
}

/// Ends a program that could not read its arguments, and returns the exit status. The fault is out of
/// memory if memory allocation failed, and otherwise usage, as for invalid arguments.
pub fn report_unreadable_arguments<V: Write + Drop>(error: &io::Error, mut report: V) -> u8
    ensures memory { error_kind error.now ≡ ErrorKind.OutOfMemory → result ≡ exit_status_of ProgramFault.NoMemory }
    ensures usage { error_kind error.now ≢ ErrorKind.OutOfMemory → result ≡ exit_status_of ProgramFault.Usage }
{
    let fault = match error.kind() {
        ErrorKind::OutOfMemory => ProgramFault::NoMemory,
        _ => ProgramFault::Usage,
    };
    report_fault(&fault, &mut report)
}

// Prints a fault's line, once, and returns its exit status. The status is the same if the line can't be
// written.
fn report_fault<V: Write>(fault: &ProgramFault, report: &mut V) -> u8
    ensures { result ≡ exit_status_of fault.now }
{
    fault.print(report);
    fault.status()
}

// Prints the end message of one Get Unit Status.
fn print_probe<W: Write>(alloc: Global, out: &mut W) -> Result<(), ProgramFault>
    ensures { OnOk result (Appends (W.contents out.old) (W.contents out.new) (byte_texts_from 0 probe_text)) }
{
    let text = probe(alloc)?;
    let lines = hexadecimal(alloc, &text)?;
    out.write_all(lines.as_bytes())
        .map_err(|_| ProgramFault::Write)?;
    out.flush().map_err(|_| ProgramFault::Write)
}
