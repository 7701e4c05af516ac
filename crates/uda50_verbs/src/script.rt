//! Execution of scripts on images.

use crate::fault::Fault;
use crate::image::{failure_fault, open_file, sync_fault};
use crate::names::is_same_file;
use crate::notes::{RunNotes, ScriptText};
use crate::reason::{Reason, ScriptReason};
use crate::streams::{InputStream, stream_name};
use std::io::{Read, Write};
use uda_driver::{Driver, Watch};
use uda_image::Drive;
use uda_script_run::{Channels, ReportStyle, ScriptOutcome, run_buffered_text};
use uda50_arguments::ImageName;
use uda50_files::{Access, Failures, Image};

/// The drives of units 0 to 3.
pub(crate) type Drives = [Option<Drive<Image>>; 4];

/// A script, the images on which it is executed, and the style of its report.
#[derive(Drop)]
pub(crate) struct Job<'j, 'w> {
    // The name of the script's file.
    name: &'w str,
    // The text of the script.
    text: ScriptText<'j>,
    // What is noted of the streams.
    notes: &'j RunNotes,
    // The images of units 0 to 3; `None` for no drive.
    units: &'j [Option<ImageName<'w>>],
    // The style of the report.
    style: ReportStyle,
}

impl<'j, 'w> Job<'j, 'w> {
    /// Opens a script.
    pub(crate) fn open(
        rt: &HostRuntime,
        script: &'w str,
        units: &'j [Option<ImageName<'w>>],
        notes: &'j RunNotes,
        style: ReportStyle,
    ) -> Result<Job<'j, 'w>, Fault<'w>> {
        let text = InputStream::open(rt, script)?;
        Ok(Job {
            name: stream_name(script),
            text: notes.text(rt.alloc(), text)?,
            notes,
            units,
            style,
        })
    }
}

/// Executes a script on its images, in batches, as it is read, and syncs the images that it wrote.
pub(crate) fn execute_script<'w, R: Read, W: Write, V: Write, H: Watch>(
    rt: &HostRuntime,
    job: Job<'_, 'w>,
    drives: Drives,
    channels: &mut Channels<R, W, V, H>,
) -> Result<ScriptOutcome, Fault<'w>> {
    match Driver::start(rt.alloc(), drives) {
        Ok(driver) => execute_on(rt, job, driver, channels),
        Err(_) => Err(Fault::new("uda50", Reason::NoMemory)),
    }
}

// Executes a script through a driver, and syncs the images that it wrote.
fn execute_on<'w, R: Read, W: Write, V: Write, H: Watch>(
    rt: &HostRuntime,
    job: Job<'_, 'w>,
    mut driver: Driver<Image>,
    channels: &mut Channels<R, W, V, H>,
) -> Result<ScriptOutcome, Fault<'w>> {
    let Job {
        name,
        text,
        notes,
        units,
        style,
    } = job;
    let done = run_buffered_text(rt.alloc(), style, text, channels, &mut driver);
    let outcome = match done {
        Ok(outcome) => Ok(outcome),
        Err(error) => Err(notes.fault(name, error)),
    };
    print_failures(rt, units, &notes.failures);
    sync(rt, driver.into_stores(), units, &notes.failures, outcome)
}

/// Opens the images of units 0 to 3, in this order.
pub(crate) fn open_drives<'w>(
    rt: &HostRuntime,
    units: &[Option<ImageName<'w>>],
    notes: &RunNotes,
) -> Result<Drives, Fault<'w>> {
    let mut drives = [None, None, None, None];
    for (number, (drive, unit)) in drives.iter_mut().zip(units).enumerate() {
        if let Some(image) = unit {
            *drive = open_unit(rt, units, number, *image, notes)?;
        }
    }
    Ok(drives)
}

// Opens the image of the unit with this number.
fn open_unit<'w>(
    rt: &HostRuntime,
    units: &[Option<ImageName<'w>>],
    number: usize,
    image: ImageName<'w>,
    notes: &RunNotes,
) -> Result<Option<Drive<Image>>, Fault<'w>> {
    let Some(failures) = notes.failures.get(number) else {
        return Ok(None);
    };
    match open_drive(rt, image, failures) {
        Ok(drive) => Ok(Some(drive)),
        Err(fault) => Err(with_user(rt, units, number, fault)),
    }
}

// Returns the fault of the image of a unit. If it is in use by an earlier unit, the fault names both.
fn with_user<'w>(
    rt: &HostRuntime,
    units: &[Option<ImageName<'w>>],
    number: usize,
    fault: Fault<'w>,
) -> Fault<'w> {
    if !matches!(fault.reason, Reason::InUse) {
        return fault;
    }
    match units
        .iter()
        .take(number)
        .position(|unit| is_of_file(rt, *unit, fault.name))
    {
        Some(first) => Fault::new(
            fault.name,
            Reason::Script(ScriptReason::GivenTwice(first, number)),
        ),
        None => fault,
    }
}

// Returns whether a unit's image is this file.
fn is_of_file(rt: &HostRuntime, unit: Option<ImageName<'_>>, path: &str) -> bool {
    match unit {
        Some(image) => is_same_file(rt, image.path, path),
        None => false,
    }
}

// Opens an image as a drive.
fn open_drive<'w>(
    rt: &HostRuntime,
    image: ImageName<'w>,
    failures: &Failures,
) -> Result<Drive<Image>, Fault<'w>> {
    let access = if image.protected {
        Access::Read
    } else {
        Access::Write
    };
    let file = Fault::of(image.path, open_file(rt, image.path, access))?;
    let store = file.into_image(failures)?;
    let hard = image.protected;
    Ok(Drive { store, hard })
}

// Prints for each image why its lowest block that failed could not be read or written.
fn print_failures(rt: &HostRuntime, units: &[Option<ImageName<'_>>], failures: &[Failures]) {
    for (unit, failures) in units.iter().zip(failures) {
        if let Some(image) = unit {
            if let Some(fault) = failure_fault(image.path, failures) {
                fault.print(rt);
            }
        }
    }
}

// Syncs each image that was written. Of the faults, the script's and then those of the images, the last is
// returned, and the others are printed.
fn sync<'w>(
    rt: &HostRuntime,
    mut drives: Drives,
    units: &[Option<ImageName<'w>>],
    failures: &[Failures],
    outcome: Result<ScriptOutcome, Fault<'w>>,
) -> Result<ScriptOutcome, Fault<'w>> {
    let mut last = outcome;
    for ((drive, unit), failures) in drives.iter_mut().zip(units).zip(failures) {
        let (Some(drive), Some(image)) = (drive, unit) else {
            continue;
        };
        if drive.store.sync().is_err() {
            print_earlier(rt, &last);
            last = Err(sync_fault(image.path, failures));
        }
    }
    last
}

// Prints the fault before the next one: that of the last image that could not be synced, or the script's.
fn print_earlier(rt: &HostRuntime, last: &Result<ScriptOutcome, Fault<'_>>) {
    match last {
        Err(fault) => fault.print(rt),
        Ok(_) => {}
    }
}
