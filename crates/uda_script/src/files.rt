//! The files in the program's arguments.

use crate::fault::ProgramFault;
use std::fs::{File, OpenFile};
use std::io::{ErrorKind, Read};
use uda_image::{Drive, FileImage, ImageError};

/// The most bytes of a script's file.
pub const SCRIPT_SIZE: u64 = 1_048_576;

/// Opens files that replace closed standard streams. The caller keeps them open while it uses other files.
/// Without them an image could be opened in place of a closed stream, and printed text would be written to
/// it.
pub fn replace_closed_streams(rt: &HostRuntime) -> Result<[File; 3], ProgramFault> {
    Ok([open_empty(rt)?, open_empty(rt)?, open_empty(rt)?])
}

// Opens a file that has no bytes to read and accepts none: `/dev/null`, or the root folder if there are no
// devices.
fn open_empty(rt: &HostRuntime) -> Result<File, ProgramFault> {
    for path in ["/dev/null", "/"] {
        if let Ok(file) = File::open(rt, path) {
            return Ok(file);
        }
    }
    Err(ProgramFault::Streams)
}

/// Opens the images of units 0 to 3, in this order. Each argument is one of these:
///
/// - `-` for no drive;
/// - `lock:FILE` for a file that is opened for reading only, and has hardware protection;
/// - `FILE` for a file.
///
/// A unit without an argument has no drive.
pub fn open_units(
    rt: &HostRuntime,
    words: &[&str],
) -> Result<[Option<Drive<FileImage>>; 4], ProgramFault> {
    Ok([
        open_unit_drive(rt, words, 0)?,
        open_unit_drive(rt, words, 1)?,
        open_unit_drive(rt, words, 2)?,
        open_unit_drive(rt, words, 3)?,
    ])
}

fn open_unit_drive(
    rt: &HostRuntime,
    words: &[&str],
    unit: usize,
) -> Result<Option<Drive<FileImage>>, ProgramFault> {
    match words.get(unit) {
        None | Some(&"-") => Ok(None),
        Some(word) => match open_image(rt, word) {
            Ok(drive) => Ok(Some(drive)),
            Err(error) => Err(ProgramFault::image(unit, error)),
        },
    }
}

// Opens the image of an argument.
fn open_image(rt: &HostRuntime, word: &str) -> Result<Drive<FileImage>, ImageError> {
    let (path, hard) = match word.strip_prefix("lock:") {
        Some(path) => (path, true),
        None => (word, false),
    };
    let store = FileImage::open(rt, path, !hard)?;
    Ok(Drive { store, hard })
}

/// Returns the bytes of the script's file. Memory is allocated separately from the reads of the file. If
/// the kernel has no memory for a read, that is a read error of the file.
pub fn read_script(rt: &HostRuntime, path: &str) -> Result<Vec<u8>, ProgramFault> {
    let Ok(file) = File::open(rt, path) else {
        return Err(ProgramFault::ScriptUnreadable);
    };
    let mut file = file.take(SCRIPT_SIZE + 1);
    let mut text = Vec::new(rt.alloc());
    let mut part = [0; 4096];
    for _ in 0..u64::MAX {
        match file.read(&mut part) {
            Ok(0) => return whole_script(text),
            Ok(count) => text.extend_from_slice(&part[..count])?,
            Err(error) if error.kind() == ErrorKind::Interrupted => {}
            Err(_) => return Err(ProgramFault::ScriptUnreadable),
        }
    }
    Err(ProgramFault::ScriptUnreadable)
}

// Returns a script's text, or an error if it is too long.
fn whole_script(text: Vec<u8>) -> Result<Vec<u8>, ProgramFault> {
    if text.len() as u64 > SCRIPT_SIZE {
        return Err(ProgramFault::ScriptTooLong);
    }
    Ok(text)
}
