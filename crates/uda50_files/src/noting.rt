//! Files that note their failures.
ghost use Rattle.std.specs.Prelude.{◌≡◌, None, false, length};

use crate::ahead::ReadAhead;
use crate::failures::{Failure, Failures};
use std::fs::File;
use std::io;
use std::os::unix::fs::FileExt;
use uda_image::{RawFile, StoreError};

/// A file that notes which calls on it failed, and why. It doesn't note a call of several blocks that failed, since
/// calls of its single blocks follow. What was read ahead is taken from there. A block that failed
/// there fails with the same error, and the system isn't asked again.
#[derive(Drop)]
pub struct NotingFile {
    file: File,
    failures: Failures,
    ahead: Option<ReadAhead>,
}

impl NotingFile {
    /// Makes a file that notes its failures here.
    pub fn new(file: File, failures: Failures) -> NotingFile {
        NotingFile {
            file,
            failures,
            ahead: None,
        }
    }

    /// Makes a file that is only read, and of which a part may be read ahead.
    pub(crate) fn with_ahead(file: File, failures: Failures, ahead: ReadAhead) -> NotingFile {
        NotingFile {
            file,
            failures,
            ahead: Some(ahead),
        }
    }

    // Copies bytes of the part that is read ahead. Returns `None` if not all of them are in it.
    fn copy_ahead(&self, to: &mut [u8], offset: u64) -> Option<io::Result<()>>
        ensures long { length to.new ≡ length to.old }
    {
        match &self.ahead {
            Some(ahead) => ahead.copy_to(&self.file, to, offset),
            None => None,
        }
    }

    // Notes the failure of the block at an offset, which was to be read or written.
    fn noted(&self, offset: u64, error: StoreError, done: io::Result<()>) -> io::Result<()> {
        if let Err(cause) = done {
            self.failures.note(Failure {
                block: u32::try_from(offset / 512).unwrap_or(u32::MAX),
                error,
                cause,
            });
        }
        done
    }
}

impl RawFile for NotingFile {
    ghost content = { λ _. None };

    ghost never_fails = { λ _. false };

    ghost unsynced = { λ _. false };

    fn read_exact(&mut self, to: &mut [u8], offset: u64) -> io::Result<()> {
        let done = match self.copy_ahead(to, offset) {
            Some(done) => done,
            None => self.file.read_exact_at(to, offset),
        };
        self.noted(offset, StoreError::Read, done)
    }

    fn write_all(&mut self, from: &[u8], offset: u64) -> io::Result<()> {
        self.failures.note_write();
        self.noted(
            offset,
            StoreError::Write,
            self.file.write_all_at(from, offset),
        )
    }

    fn read_once(&mut self, to: &mut [u8], offset: u64) -> io::Result<usize> {
        match self.copy_ahead(to, offset) {
            Some(Ok(())) => Ok(to.len()),
            Some(Err(error)) => Err(error),
            None => self.file.read_at(to, offset),
        }
    }

    fn write_once(&mut self, from: &[u8], offset: u64) -> io::Result<usize> {
        self.failures.note_write();
        self.file.write_at(from, offset)
    }

    fn sync_data(&mut self) -> io::Result<()> {
        let synced = self.file.sync_data();
        if let Err(error) = synced {
            self.failures.note_sync(error);
        }
        synced
    }
}
