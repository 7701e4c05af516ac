//! The failures of the calls on a file.

use std::alloc::{AllocError, Global};
use std::cell::Cell;
use std::io;
use std::rc::Rc;
use uda_image::StoreError;

/// A block that could not be read or written, and the reason.
#[derive(Clone, Copy, Debug)]
pub struct Failure {
    /// The block.
    pub block: u32,
    /// Whether it was to be read or written.
    pub error: StoreError,
    /// The error of the system.
    pub cause: io::Error,
}

// The failures that are noted.
#[derive(Drop)]
struct Noted {
    lowest: Cell<Option<Failure>>,
    sync: Cell<Option<io::Error>>,
    written: Cell<bool>,
}

/// What failed on a file: the lowest block that could not be read or written, and the last sync. Also whether a write
/// was tried. The file of an
/// image notes them, and its owner asks for them afterwards. Both have a handle of the same failures.
#[derive(Drop)]
pub struct Failures {
    noted: Rc<Noted>,
}

impl Failures {
    /// Makes the failures of a file on which nothing failed.
    pub fn none(alloc: Global) -> Result<Failures, AllocError> {
        let noted = Noted {
            lowest: Cell::new(None),
            sync: Cell::new(None),
            written: Cell::new(false),
        };
        match Rc::new(alloc, noted) {
            Ok(noted) => Ok(Failures { noted }),
            Err(_failed) => Err(AllocError),
        }
    }

    /// Returns another handle of the same failures.
    pub fn share(&self) -> Result<Failures, AllocError> {
        let noted = self.noted.clone()?;
        Ok(Failures { noted })
    }

    /// Notes that a block could not be read or written.
    pub fn note(&self, failure: Failure) {
        match self.noted.lowest.get() {
            Some(lowest) if lowest.block <= failure.block => {}
            _ => self.noted.lowest.set(Some(failure)),
        }
    }

    /// Notes that the file could not be synced.
    pub fn note_sync(&self, error: io::Error) {
        self.noted.sync.set(Some(error));
    }

    /// Notes that the file is written.
    pub fn note_write(&self) {
        self.noted.written.set(true);
    }

    /// Returns whether a write was tried.
    pub fn was_written(&self) -> bool {
        self.noted.written.get()
    }

    /// Returns the failure of the lowest block that failed.
    pub fn lowest(&self) -> Option<Failure> {
        self.noted.lowest.get()
    }

    /// Returns the error of the last sync that failed.
    pub fn sync(&self) -> Option<io::Error> {
        self.noted.sync.get()
    }
}
