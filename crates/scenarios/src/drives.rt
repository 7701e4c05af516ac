//! Drives that are attached and removed, and commands for an executor.
use crate::disk::{Plan, RecordingImage};
use crate::fault::CaseFault;
use crate::machine::{CaseMachine, CaseSubject, NO_UNITS};
use crate::op::command;
use crate::step::Change;
use crate::words::Words;
use std::alloc::Global;
use uda_disk::Mode;
use uda_exec::PENDING;
use uda_image::{BLOCK_LIMIT, Drive, MemImage};
use uda_packet::DriveType;

impl CaseMachine {
    /// Changes the drives and the commands.
    pub fn change(&mut self, change: Change, words: &mut Words<'_>) -> Result<(), CaseFault> {
        match change {
            Change::Unit => self.new_drive(words),
            Change::Remove => {
                self.shelf = self.set_drive(words.unit()?, None)?;
                Ok(())
            }
            Change::Insert => {
                let drive = self.shelf.take();
                self.shelf = self.set_drive(words.unit()?, drive)?;
                Ok(())
            }
            Change::Restore => self.restore(words),
            Change::Type => self.set_type(words),
            Change::Accept => self.accept(words),
            Change::Reset => {
                self.subject.executor()?.reset();
                Ok(())
            }
        }
    }

    // Attaches a new drive, and puts the old one on the shelf.
    fn new_drive(&mut self, words: &mut Words<'_>) -> Result<(), CaseFault> {
        let unit = words.unit()?;
        let drive = parse_drive(self.alloc, words)?;
        self.shelf = self.set_drive(unit, Some(drive))?;
        Ok(())
    }

    // Sets the mode of a unit: online or available, with these flags.
    fn restore(&mut self, words: &mut Words<'_>) -> Result<(), CaseFault> {
        let unit = words.unit()?;
        let online = words.takes("online");
        if !online && !words.takes("available") {
            return Err(CaseFault::Wanted("online or available"));
        }
        let flags = words.hex()?;
        let mode = Mode {
            online,
            hard: flags & 0x2000 != 0,
            soft: flags & 0x1000 != 0,
        };
        self.restore_mode(unit, mode)
    }

    // Sets the drive type of a unit without a drive.
    fn set_type(&mut self, words: &mut Words<'_>) -> Result<(), CaseFault> {
        let unit = words.unit()?;
        let name = words.word("a drive type")?;
        let Some(kind) = DriveType::ALL
            .iter()
            .find(|kind| kind.name().eq_ignore_ascii_case(name))
        else {
            return Err(CaseFault::Wanted("a drive type"));
        };
        if self.subject.port()?.set_type(unit, *kind) {
            Ok(())
        } else {
            Err(CaseFault::Wanted("a unit without a drive"))
        }
    }

    /// Sets the mode of a unit.
    pub fn restore_mode(&mut self, unit: usize, mode: Mode) -> Result<(), CaseFault> {
        match &mut self.subject {
            CaseSubject::Port(port) => port.restore_mode(unit, mode),
            CaseSubject::Executor(exec) => exec.restore_mode(unit, mode),
            _ => return Err(NO_UNITS),
        }
        Ok(())
    }

    // Queues a command in the executor.
    fn accept(&mut self, words: &mut Words<'_>) -> Result<(), CaseFault> {
        let reference = words.number()?;
        let command = command(words, reference)?;
        let exec = self.subject.executor()?;
        if exec.pending() >= PENDING {
            return Err(CaseFault::Full);
        }
        exec.accept(command);
        Ok(())
    }
}

// Returns a drive of n blocks. Block k has bytes k unless the line says otherwise.
fn parse_drive(alloc: Global, words: &mut Words<'_>) -> Result<Drive<RecordingImage>, CaseFault> {
    let count = words.number()?;
    if count > BLOCK_LIMIT {
        return Err(CaseFault::Wanted("fewer blocks"));
    }
    let mut bytes = vec![in alloc; 0u8; 512 * count as usize]?;
    let hard = words.takes("protected");
    if words.takes("of") {
        bytes.fill(words.byte()?);
    } else {
        let first = if words.takes("from") {
            words.byte()?
        } else {
            0
        };
        number_blocks(&mut bytes, first);
    }
    let store = RecordingImage::new(MemImage::from_bytes(alloc, &bytes)?, plan(words)?);
    Ok(Drive { store, hard })
}

// Fills each block with a byte, which counts up from that of the first block.
fn number_blocks(bytes: &mut [u8], first: u8) {
    let mut byte = first;
    for block in bytes.chunks_mut(512) {
        block.fill(byte);
        byte = byte.wrapping_add(1);
    }
}

// Returns the plan of a store's failures.
fn plan(words: &mut Words<'_>) -> Result<Plan, CaseFault> {
    Ok(Plan {
        fails: number_after(words, "fails", 0)?,
        bad: if words.takes("bad") {
            Some(words.number()?)
        } else {
            None
        },
        at_once: number_after(words, "at-once", u32::MAX)?,
        declines: number_after(words, "declines", u32::MAX)?,
        spoils: words.takes("spoils"),
    })
}

// Returns the number after a word, or `without` if the word doesn't follow.
fn number_after(words: &mut Words<'_>, word: &str, without: u32) -> Result<u32, CaseFault> {
    if words.takes(word) {
        words.number()
    } else {
        Ok(without)
    }
}
