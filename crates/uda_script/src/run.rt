//! The run of a script over images in files.

use crate::fault::ProgramFault;
use crate::files::{open_units, read_script, replace_closed_streams};
use std::alloc::Global;
use std::io::{BufWriter, Read, Write};
use uda_driver::Driver;
use uda_grammar::{Script, parse};
use uda_image::{Drive, FileImage};
use uda_script_run::run_script;

/// The capacity of a write buffer in bytes. A text of that length or more is written directly, without the
/// buffer.
const WRITE_CAPACITY: usize = 4_096;

/// The streams of a run: the source of its data, and the destinations of its texts.
#[derive(Drop)]
pub(crate) struct StandardStreams<R, W, V> {
    /// The data of the script's writes.
    pub(crate) input: R,
    /// The destination of the bytes that are read from the images.
    pub(crate) out: W,
    /// The destination of the report, which has a line for each request.
    pub(crate) report: V,
}

/// Opens the images, reads the script and runs it over the streams.
///
/// It writes and flushes `out` before the first byte of `report`. If a write fails, buffered bytes are
/// dropped. At the end it syncs each image that was written. If that fails, a line of `report` says so.
pub(crate) fn run_script_file<R: Read, W: Write + Drop, V: Write + Drop>(
    rt: &HostRuntime,
    script: &str,
    units: &[&str],
    streams: &mut StandardStreams<R, W, V>,
) -> Result<(), ProgramFault> {
    let held = replace_closed_streams(rt)?;
    let drives = open_units(rt, units)?;
    let script = script_in(rt, script)?;
    let done = run_over(rt.alloc(), drives, &script, streams);
    drop(held);
    done
}

// Reads and parses the script of a file.
fn script_in(rt: &HostRuntime, path: &str) -> Result<Script, ProgramFault> {
    let text = read_script(rt, path)?;
    Ok(parse(rt.alloc(), &text)?)
}

// Runs a script over drives, and syncs the images that it wrote.
fn run_over<R: Read, W: Write + Drop, V: Write + Drop>(
    alloc: Global,
    drives: [Option<Drive<FileImage>>; 4],
    script: &Script,
    streams: &mut StandardStreams<R, W, V>,
) -> Result<(), ProgramFault> {
    match Driver::start(alloc, drives) {
        Ok(mut driver) => {
            let done = gather(alloc, script, streams, &mut driver);
            sync_images(driver.into_stores(), done, &mut streams.report)
        }
        Err(_) => Err(ProgramFault::NoMemory),
    }
}

// Syncs each image that was written. It returns the last of the faults: the run's, and then those of the
// units. It prints the lines of the others.
fn sync_images<V: Write>(
    mut drives: [Option<Drive<FileImage>>; 4],
    mut done: Result<(), ProgramFault>,
    report: &mut V,
) -> Result<(), ProgramFault> {
    for (unit, drive) in drives.iter_mut().enumerate() {
        let Some(drive) = drive else {
            continue;
        };
        if drive.store.sync().is_err() {
            if let Err(earlier) = &done {
                earlier.print(report);
            }
            done = Err(ProgramFault::SyncFailed { unit });
        }
    }
    done
}

// Runs a script with buffered output.
fn gather<R: Read, W: Write + Drop, V: Write + Drop>(
    alloc: Global,
    script: &Script,
    streams: &mut StandardStreams<R, W, V>,
    driver: &mut Driver<FileImage>,
) -> Result<(), ProgramFault> {
    let Ok(mut out) = BufWriter::with_capacity(alloc, WRITE_CAPACITY, &mut streams.out) else {
        return Err(ProgramFault::NoMemory);
    };
    let Ok(mut report) = BufWriter::with_capacity(alloc, WRITE_CAPACITY, &mut streams.report) else {
        return Err(ProgramFault::NoMemory);
    };
    let done = run_script(
        alloc,
        script,
        &mut streams.input,
        &mut out,
        &mut report,
        driver,
    );
    drop((out.into_parts(), report.into_parts()));
    Ok(done?)
}
