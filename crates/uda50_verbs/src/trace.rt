//! `uda50 trace`: prints each turn of the port.

use crate::fault::Fault;
use crate::notes::RunNotes;
use crate::outcome::Outcome;
use crate::script::{Job, execute_script, open_drives};
use crate::streams::{InputStream, Noting};
use std::io;
use std::io::Write;
use uda_driver::{Trace, Watch};
use uda_packet::status;
use uda_script_run::{Channels, ReportStyle};
use uda50_arguments::ImageName;

/// Executes a script on images as `run` does, and prints each turn of the port: what it fetched, executed
/// or delivered, and the number of credits left. The blocks that the script reads are not printed.
pub(crate) fn trace<'w, W: Write>(
    rt: &HostRuntime,
    script: &'w str,
    units: &[Option<ImageName<'w>>],
    out: &mut W,
) -> Result<Outcome, Fault<'w>> {
    let notes = RunNotes::new(rt.alloc())?;
    let drives = open_drives(rt, units, &notes)?;
    let job = Job::open(rt, script, units, &notes, ReportStyle::PLAIN)?;
    let data = InputStream::of_data(rt, script);
    let mut channels = Channels {
        input: Noting::new(data, &notes.input),
        out: io::sink(),
        report: io::sink(),
        watch: Printer {
            out,
            turns: 0,
            printed: Ok(()),
        },
    };
    let done = execute_script(rt, job, drives, &mut channels);
    let Channels { watch, .. } = channels;
    let outcome = done?;
    watch.printed?;
    Ok(Outcome::of_script(outcome))
}

// Prints turns until a write fails.
#[derive(Drop)]
struct Printer<'o, W> {
    out: &'o mut W,
    turns: u64,
    printed: io::Result<()>,
}

impl<'o, W: Write> Printer<'o, W> {
    fn print(&mut self, trace: &Trace, credits: u32) -> io::Result<()> {
        print_turn(self.out, self.turns, trace)?;
        if let Trace::Executed(end) | Trace::Delivered(end) | Trace::InvalidCommand(end) = trace {
            print_status(self.out, end.status)?;
        }
        let word = if credits == 1 { "credit" } else { "credits" };
        writeln!(self.out, ", {credits} {word}")
    }
}

fn print_turn<W: Write>(out: &mut W, turn: u64, trace: &Trace) -> io::Result<()> {
    write!(out, "turn {turn}: {trace}")
}

fn print_status<W: Write>(out: &mut W, code: u16) -> io::Result<()> {
    let name = status::name(code);
    write!(out, " ({name})")
}

impl<'o, W: Write> Watch for Printer<'o, W> {
    fn see(&mut self, trace: &Trace, credits: u32) {
        self.turns = self.turns.saturating_add(1);
        if self.printed.is_ok() {
            self.printed = self.print(trace, credits);
        }
    }
}
