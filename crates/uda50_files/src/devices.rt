//! Block devices, and whether the system uses them.

use crate::mounts::{is_mounted, is_path_of};
use std::{fmt, fs, io};

/// The two numbers of a device.
#[derive(Clone, Copy, Debug, PartialEq, Eq)]
pub(crate) struct Device {
    major: u64,
    minor: u64,
}

impl Device {
    /// Returns the numbers of a device that Linux packed.
    pub(crate) fn of(packed: u64) -> Device {
        Device {
            major: ((packed >> 8) & 0xFFF) | ((packed >> 32) & 0xFFFF_F000),
            minor: (packed & 0xFF) | ((packed >> 12) & 0xFFFF_FF00),
        }
    }

    /// Returns the numbers in a text such as `8:1`.
    pub(crate) fn parse(text: &str) -> Option<Device> {
        let (major, minor) = text.split_once(':')?;
        let major: u32 = major.parse().ok()?;
        let minor: u32 = minor.parse().ok()?;
        Some(Device {
            major: u64::from(major),
            minor: u64::from(minor),
        })
    }

    // Returns the numbers as Linux packs them.
    fn packed(self) -> u64 {
        let Device { major, minor } = self;
        let low = (minor & 0xFF) | ((major & 0xFFF) << 8);
        low | ((minor & 0xFFFF_FF00) << 12) | ((major & 0xFFFF_F000) << 32)
    }
}

/// Writes a text such as `8:1`.
impl fmt::Display for Device {
    fn fmt<W: fmt::Write>(&self, f: &mut fmt::Formatter<W>) -> fmt::Result {
        write!(f, "{}:{}", self.major, self.minor)
    }
}

/// Returns whether the system uses a block device or one of its partitions: as a file system, to swap, or as a part of
/// another device.
pub(crate) fn is_in_use(rt: &HostRuntime, device: u64) -> io::Result<bool> {
    let device = Device::of(device);
    if is_used(rt, device)? {
        return Ok(true);
    }
    let folder = format!(in rt.alloc(); "/sys/dev/block/{device}")?;
    let Ok(entries) = fs::read_dir(rt, folder.as_str()) else {
        return Ok(false);
    };
    for entry in entries {
        if let Some(partition) = partition_in(rt, entry?.path().as_str())? {
            if is_used(rt, partition)? {
                return Ok(true);
            }
        }
    }
    Ok(false)
}

// Returns the partition that a folder of the system describes, if it describes one.
fn partition_in(rt: &HostRuntime, folder: &str) -> io::Result<Option<Device>> {
    let number = format!(in rt.alloc(); "{folder}/partition")?;
    if fs::metadata(rt, number.as_str()).is_err() {
        return Ok(None);
    }
    let device = format!(in rt.alloc(); "{folder}/dev")?;
    match fs::read_to_string(rt, device.as_str()) {
        Ok(text) => Ok(Device::parse(text.as_str().trim_ascii_end())),
        Err(_error) => Ok(None),
    }
}

// Returns whether the system uses a block device itself.
fn is_used(rt: &HostRuntime, device: Device) -> io::Result<bool> {
    let packed = device.packed();
    Ok(is_mounted(rt, packed)? || is_swapped_to(rt, packed) || is_held(rt, device)?)
}

// Returns whether the system swaps to a device.
fn is_swapped_to(rt: &HostRuntime, device: u64) -> bool {
    match fs::read_to_string(rt, "/proc/swaps") {
        Ok(swaps) => swaps.as_str().lines().any(|line| match line.split(' ').next() {
            Some(path) => is_path_of(rt, path, device),
            None => false,
        }),
        Err(_error) => false,
    }
}

// Returns whether a device is a part of another one.
fn is_held(rt: &HostRuntime, device: Device) -> io::Result<bool> {
    let folder = format!(in rt.alloc(); "/sys/dev/block/{device}/holders")?;
    match fs::read_dir(rt, folder.as_str()) {
        Ok(mut holders) => Ok(holders.next().is_some()),
        Err(_error) => Ok(false),
    }
}
