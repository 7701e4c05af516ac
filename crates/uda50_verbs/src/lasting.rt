//! Files whose bytes and names outlast a loss of power.

use std::fs::{File, OpenFile, OpenOptions};
use std::io::{ErrorKind, Write};
use std::{fs, io};

/// Returns the folder of a file.
pub(crate) fn folder_of(path: &str) -> &str {
    match path.rsplit_once('/') {
        Some(("", _)) => "/",
        Some((folder, _)) => folder,
        None => ".",
    }
}

/// Syncs the folder of a file, so that the names in it are on the disk. Some file systems sync no folders.
pub(crate) fn sync_folder(rt: &HostRuntime, path: &str) -> io::Result<()> {
    let folder = File::open(rt, folder_of(path))?;
    match folder.sync_all() {
        Err(error) if error.kind() == ErrorKind::InvalidInput => Ok(()),
        synced => synced,
    }
}

/// Removes a file, and syncs its folder. There may be no such file.
pub(crate) fn remove(rt: &HostRuntime, path: &str) -> io::Result<()> {
    match fs::remove_file(rt, path) {
        Ok(()) => sync_folder(rt, path),
        Err(error) if error.kind() == ErrorKind::NotFound => Ok(()),
        Err(error) => Err(error),
    }
}

/// Reads a text file. Returns `None` if there is none.
pub(crate) fn read(rt: &HostRuntime, path: &str) -> io::Result<Option<String>> {
    match fs::read_to_string(rt, path) {
        Ok(text) => Ok(Some(text)),
        Err(error) if error.kind() == ErrorKind::NotFound => Ok(None),
        Err(error) => Err(error),
    }
}

/// Syncs the folder of a file that was renamed. If that fails, the file gets its old name again.
pub(crate) fn sync_renamed(rt: &HostRuntime, from: &str, to: &str) -> io::Result<()> {
    let synced = sync_folder(rt, from);
    if synced.is_err() {
        let _ = fs::rename(rt, to, from);
    }
    synced
}

/// Writes a text to a new file, which then takes the place of another one. If it is to last, the new file and its folder
/// are synced. If the new file doesn't take that place, it is removed.
pub(crate) fn replace(
    rt: &HostRuntime,
    path: &str,
    new: &str,
    text: &str,
    lasts: bool,
) -> io::Result<()> {
    write_new(rt, new, text, lasts)?;
    let renamed = fs::rename(rt, new, path);
    if renamed.is_err() {
        let _ = fs::remove_file(rt, new);
    }
    renamed?;
    match lasts {
        true => sync_folder(rt, path),
        false => Ok(()),
    }
}

// Writes a text to a new file. If it is to last, it is synced. If that fails, there is no such file.
fn write_new(rt: &HostRuntime, path: &str, text: &str, lasts: bool) -> io::Result<()> {
    let mut file = OpenOptions::new()
        .write(true)
        .create_new(true)
        .open(rt, path)?;
    let written = write(&mut file, text, lasts);
    if written.is_err() {
        let _ = fs::remove_file(rt, path);
    }
    written
}

// Writes a text to a file, and syncs it if it is to last.
fn write(file: &mut File, text: &str, lasts: bool) -> io::Result<()> {
    file.write_all(text.as_bytes())?;
    match lasts {
        true => file.sync_all(),
        false => Ok(()),
    }
}
