//! The visible state of drives.
use crate::disk::RecordingImage;
use crate::fault::CaseFault;
use crate::machine::CaseMachine;
use crate::place::run_of;
use crate::step::Hold;
use crate::words::Words;
use std::fmt::Write;
use uda_image::Drive;

/// The most runs of equal bytes that are written of a block.
const RUNS: usize = 6;

impl CaseMachine {
    /// Writes the visible state of drives.
    pub fn open(
        &mut self,
        hold: Hold,
        words: &mut Words<'_>,
        came: &mut String,
    ) -> Result<(), CaseFault> {
        match hold {
            Hold::Mode => self.mode(words.unit()?, came),
            Hold::Shelf => write_drive(&self.shelf, came),
            Hold::Drive => self.opened(words.unit()?, false, came),
            Hold::Calls => self.opened(words.unit()?, true, came),
        }
    }

    // Writes whether a unit is online, its flags, and its size.
    fn mode(&self, unit: usize, came: &mut String) -> Result<(), CaseFault> {
        match self.look(unit) {
            Some(look) => {
                let state = if look.mode.online {
                    "online"
                } else {
                    "available"
                };
                write!(came, "{state} {:04x} {}", look.mode.flags(), look.size)?;
            }
            None => came.push_str("none")?,
        }
        Ok(())
    }

    // Writes the drive of a unit or its calls. It removes the drive, reads it, and puts it back unchanged.
    fn opened(&mut self, unit: usize, calls: bool, came: &mut String) -> Result<(), CaseFault> {
        let look = self.look(unit);
        let drive = self.exchange_drive(unit, None)?;
        let drive = if calls {
            with_calls(drive, came)?
        } else {
            write_drive(&drive, came)?;
            drive
        };
        self.exchange_drive(unit, drive)?;
        match look {
            Some(look) => self.restore_mode(unit, look.mode),
            None => Ok(()),
        }
    }
}

// Writes the calls that a store got since they were written last, and clears their record.
fn with_calls(
    drive: Option<Drive<RecordingImage>>,
    came: &mut String,
) -> Result<Option<Drive<RecordingImage>>, CaseFault> {
    let Some(mut drive) = drive else {
        came.push_str("no drive")?;
        return Ok(None);
    };
    if drive.store.calls().is_empty() {
        came.push_str("none")?;
    }
    for call in drive.store.calls() {
        write!(came, "{call} ")?;
    }
    drive.store.forget();
    Ok(Some(drive))
}

// Writes the hardware write protection of a drive, and its blocks.
fn write_drive(drive: &Option<Drive<RecordingImage>>, came: &mut String) -> Result<(), CaseFault> {
    let Some(drive) = drive else {
        return Ok(came.push_str("none")?);
    };
    came.push_str(if drive.hard { "protected" } else { "free" })?;
    for block in drive.store.bytes().chunks(512) {
        came.push(' ')?;
        write_runs(block, came)?;
    }
    Ok(())
}

// Writes a block as runs of a byte: `30` if all bytes are equal, `66*256/32*256` if its halves differ.
fn write_runs(block: &[u8], came: &mut String) -> Result<(), CaseFault> {
    let mut rest = block;
    for _ in 0..RUNS {
        let Some(&byte) = rest.first() else {
            return Ok(());
        };
        let count = run_of(rest, byte);
        if count == block.len() {
            write!(came, "{byte:x}")?;
            return Ok(());
        }
        let joint = if rest.len() == block.len() { "" } else { "/" };
        write!(came, "{joint}{byte:x}*{count}")?;
        rest = rest.get(count..).unwrap_or(&[]);
    }
    Ok(came.push_str(if rest.is_empty() { "" } else { ".." })?)
}
