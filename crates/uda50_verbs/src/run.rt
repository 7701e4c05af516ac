//! `uda50 run`: executes scripts of any length.

use crate::check::check;
use crate::fault::Fault;
use crate::notes::RunNotes;
use crate::outcome::Outcome;
use crate::script::{Job, execute_script, open_drives};
use crate::streams::{BlockOutput, InputStream, Noting};
use std::io;
use std::io::{BufWriter, Write};
use uda_driver::Unwatched;
use uda_script_run::{Channels, ReportStyle};
use uda50_arguments::Run;

/// The capacity of the buffers of standard output and standard error, in bytes.
const BUFFER: usize = 4_096;

/// Executes a script on images, in batches, as it is read, or only checks it. The script `-` is read from
/// standard input, so its `write` lines have no data.
pub(crate) fn run<'w>(rt: &HostRuntime, run: &Run<'w>) -> Result<Outcome, Fault<'w>> {
    if run.check {
        return check(rt, run.script);
    }
    let notes = RunNotes::new(rt.alloc())?;
    let units = run.units.as_slice();
    let drives = open_drives(rt, units, &notes)?;
    let style = ReportStyle {
        names: run.names,
        failures_only: run.quiet,
    };
    let job = Job::open(rt, run.script, units, &notes, style)?;
    let data = InputStream::of_data(rt, run.script);
    let mut channels = Channels {
        input: Noting::new(data, &notes.input),
        out: buffered(
            rt,
            Noting::new(BlockOutput::new(rt.stdout(), &notes.refused), &notes.out),
        )?,
        report: buffered(rt, Noting::new(rt.stderr(), &notes.report))?,
        watch: Unwatched,
    };
    let done = execute_script(rt, job, drives, &mut channels);
    let Channels { out, report, .. } = channels;
    drop((out.into_parts(), report.into_parts()));
    Ok(Outcome::of_script(done?))
}

// Gives a stream a buffer.
fn buffered<W: Write + Drop>(rt: &HostRuntime, stream: W) -> io::Result<BufWriter<W>> {
    BufWriter::with_capacity(rt.alloc(), BUFFER, stream)
}
