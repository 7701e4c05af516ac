//! Printing of disks and texts.
use crate::counting::Drives;
use anyhow::Result;

/// Prints a line.
pub fn tell(rt: &HostRuntime, line: &str) -> Result<()> {
    println!(rt; "{line}")?;
    Ok(())
}

/// Prints each drive's protection, the number of calls of its store, and its blocks.
pub fn tell_drives(rt: &HostRuntime, drives: &Drives) -> Result<()> {
    for drive in drives.iter().flatten() {
        println!(rt; "protected {}, {} calls", drive.hard, drive.store.calls)?;
        tell_bytes(rt, drive.store.image.bytes())?;
    }
    Ok(())
}

/// Prints a line for each block: the byte that fills it.
pub fn tell_bytes(rt: &HostRuntime, bytes: &[u8]) -> Result<()> {
    for block in bytes.chunks(512) {
        let first = block.first().copied().unwrap_or(0);
        if block.iter().all(|byte| *byte == first) {
            println!(rt; "{} of {first:02x}", block.len())?;
        } else {
            println!(rt; "{block:?}")?;
        }
    }
    Ok(())
}
