//! File systems, by their devices.

use crate::devices::Device;
use std::os::unix::fs::{FileTypeExt, MetadataExt};
use std::{fs, io};

/// The folder with a folder for each process.
const PROCESSES: &str = "/proc";

/// The file in which Linux lists what is mounted for this process.
const MOUNTS: &str = "/proc/self/mountinfo";

/// The file systems that count the blocks of a file exactly, also of one that was just written.
const EXACT: [&str; 5] = ["ext2", "ext3", "ext4", "xfs", "tmpfs"];

/// Returns whether the file system of a device counts the blocks of a file exactly.
pub(crate) fn counts_exactly(rt: &HostRuntime, device: u64) -> bool {
    match fs::read_to_string(rt, MOUNTS) {
        Ok(mounts) => mounts
            .as_str()
            .lines()
            .any(|line| is_on_device(line, device) && is_exact_type(line)),
        Err(_error) => false,
    }
}

/// Returns whether a file system of a block device is mounted, for this process or for another one that can be looked at.
pub(crate) fn is_mounted(rt: &HostRuntime, device: u64) -> io::Result<bool> {
    if is_mounted_in(rt, MOUNTS, device) {
        return Ok(true);
    }
    let Ok(processes) = fs::read_dir(rt, PROCESSES) else {
        return Ok(false);
    };
    for process in processes {
        let mounts = format!(in rt.alloc(); "{}/mountinfo", process?.path().as_str())?;
        if is_mounted_in(rt, mounts.as_str(), device) {
            return Ok(true);
        }
    }
    Ok(false)
}

// Returns whether a list of what is mounted has a file system of a block device. There may be no such list.
fn is_mounted_in(rt: &HostRuntime, mounts: &str, device: u64) -> bool {
    match fs::read_to_string(rt, mounts) {
        Ok(mounts) => mounts.as_str().lines().any(|line| is_on_device(line, device)
            || is_of_source(rt, line, device)),
        Err(_error) => false,
    }
}

// Returns whether a line of `mountinfo` is of this device.
fn is_on_device(line: &str, device: u64) -> bool {
    match line.split(' ').nth(2) {
        Some(numbers) => Device::parse(numbers) == Some(Device::of(device)),
        None => false,
    }
}

// Returns whether a line of `mountinfo` has the path of this device. A file system that has several devices has a
// device number of its own.
fn is_of_source(rt: &HostRuntime, line: &str, device: u64) -> bool {
    let Some((_, rest)) = line.split_once(" - ") else {
        return false;
    };
    match rest.split(' ').nth(1) {
        Some(path) => is_path_of(rt, path, device),
        None => false,
    }
}

// Returns whether a line of `mountinfo` has such a file system. Its type follows a word that is a hyphen.
fn is_exact_type(line: &str) -> bool {
    match line.split_once(" - ") {
        Some((_, rest)) => match rest.split(' ').next() {
            Some(name) => EXACT.iter().any(|exact| *exact == name),
            None => false,
        },
        None => false,
    }
}

/// Returns whether a path is that of a block device.
pub(crate) fn is_path_of(rt: &HostRuntime, path: &str, device: u64) -> bool {
    match fs::metadata(rt, path) {
        _ if !path.starts_with("/dev/") => false,
        Ok(metadata) => metadata.file_type().is_block_device() && metadata.rdev() == device,
        Err(_error) => false,
    }
}
