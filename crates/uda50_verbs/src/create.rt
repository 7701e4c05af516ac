//! `uda50 create`: new images.

use crate::fault::Fault;
use crate::file_fault::{FileFault, FileRole};
use crate::map_file::{check_no_map_of, remove_map_of, restore_map_of};
use crate::names::end_of_links;
use crate::outcome::Outcome;
use crate::reason::Reason;
use std::fs::{File, Metadata, OpenFile, OpenOptions, TryLockError};
use std::{fs, io};
use uda50_arguments::Create;
use uda50_show::EscapedName;

/// Makes an image of zeros. With `--force`, an existing file becomes one, and a map of what it was is removed.
pub(crate) fn create<'w>(rt: &HostRuntime, create: &Create<'w>) -> Result<Outcome, Fault<'w>> {
    match make_image(rt, create) {
        Ok(outcome) => Ok(outcome),
        Err(fault) => Err(fault.of_target(create.image.path)),
    }
}

// Makes an image of zeros, of a new file or of an existing one.
fn make_image(rt: &HostRuntime, create: &Create<'_>) -> Result<Outcome, FileFault> {
    if create.image.protected {
        return Err(FileRole::Target.fault(Reason::Protected));
    }
    if create.image.is_stream() {
        return Err(FileRole::Target.fault(Reason::NoImage));
    }
    let outcome = match fs::metadata(rt, create.image.path) {
        Ok(metadata) => overwrite(rt, create, &metadata)?,
        Err(_) => create_new(rt, create)?,
    };
    warn_of_unreported(rt, create);
    Ok(outcome)
}

// Prints a line if no unit of the controller reports the drive type of the image.
fn warn_of_unreported(rt: &HostRuntime, create: &Create<'_>) {
    if let Some(drive) = create.drive.filter(|drive| !drive.is_reported) {
        let image = EscapedName(create.image.path);
        let _ = eprintln!(rt;
            "uda50: {image}: no unit of the controller reports the drive type {}",
            drive.name
        );
    }
}

// Makes an existing file an image of zeros.
fn overwrite(
    rt: &HostRuntime,
    create: &Create<'_>,
    metadata: &Metadata,
) -> Result<Outcome, FileFault> {
    let path = create.image.path;
    FileRole::Target.of(check_existing(create.force, metadata))?;
    let file = locked(rt, path)?;
    remove_map_at_end(rt, path)?;
    FileRole::Target.of_call(file.set_len(0))?;
    FileRole::Target.of_call(set_blocks(&file, create.blocks))?;
    Ok(Outcome::Done)
}

// Removes the map of an existing file. If the name is that of a link, the map is that of the file to which it leads.
fn remove_map_at_end(rt: &HostRuntime, path: &str) -> Result<(), FileFault> {
    let end = end_of_links(rt, FileRole::Target, path)?;
    match remove_map_of(rt, end.as_str()) {
        Ok(_map) => Ok(()),
        Err(fault) => Err(FileFault {
            role: FileRole::Target,
            ..fault
        }),
    }
}

// Makes an image of zeros in a new file. Without `--force`, there may be no map of what had its name. If no file is made,
// the map is as it was.
fn create_new(rt: &HostRuntime, create: &Create<'_>) -> Result<Outcome, FileFault> {
    let path = create.image.path;
    if !create.force {
        check_no_map_of(rt, path)?;
    }
    let map = remove_map_of(rt, path)?;
    let made = make_zeros(rt, create);
    if made.is_err() {
        if let Some(map) = &map {
            restore_map_of(rt, path, map)?;
        }
    }
    made
}

// Makes a new file of zeros. Removes it if its length can't be set.
fn make_zeros(rt: &HostRuntime, create: &Create<'_>) -> Result<Outcome, FileFault> {
    let path = create.image.path;
    let file = new_file(rt, path)?;
    let done = set_blocks(&file, create.blocks);
    if done.is_err() {
        let _ = fs::remove_file(rt, path);
    }
    FileRole::Target.of_call(done)?;
    Ok(Outcome::Done)
}

/// Fails if an existing file may not be overwritten: if it isn't a plain file, and without `--force`.
pub(crate) fn check_existing(force: bool, metadata: &Metadata) -> Result<(), Reason> {
    if !metadata.is_file() {
        Err(Reason::NotPlain)
    } else if !force {
        Err(Reason::Exists)
    } else {
        Ok(())
    }
}

/// Sets the length of a file to `blocks` blocks.
pub(crate) fn set_blocks(file: &File, blocks: u32) -> io::Result<()> {
    file.set_len(512 * u64::from(blocks))
}

// Makes a file that doesn't exist yet.
fn new_file(rt: &HostRuntime, path: &str) -> Result<File, FileFault> {
    let made = OpenOptions::new()
        .write(true)
        .create_new(true)
        .open(rt, path);
    FileRole::Target.of_call(made)
}

// Opens and locks a file. Fails if somebody else holds its lock. A file that has no locks is only opened.
fn locked(rt: &HostRuntime, path: &str) -> Result<File, FileFault> {
    let file = FileRole::Target.of_call(OpenOptions::new().write(true).open(rt, path))?;
    match file.try_lock() {
        Err(TryLockError::WouldBlock) => Err(FileRole::Target.fault(Reason::InUse)),
        _ => Ok(file),
    }
}
