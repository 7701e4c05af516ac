//! Opening and reading of images.

use crate::fault::Fault;
use crate::reason::{CopyReason, ImageReason, Reason};
use std::fs::{OpenFile, OpenOptions};
use std::io::ErrorKind;
use std::{fs, io};
use uda_image::{BlockStore, StoreError};
use uda50_arguments::ImageName;
use uda50_files::{Access, Failure, Failures, Image, OpenError, OpenImageFile};

/// An open image, its path, and the failures of its file.
#[derive(Drop)]
pub(crate) struct NamedImage<'w> {
    path: &'w str,
    image: Image,
    failures: Failures,
}

impl<'w> NamedImage<'w> {
    /// Opens an image, or a block device, for reading. A stream is no image.
    pub(crate) fn open(rt: &HostRuntime, name: ImageName<'w>) -> Result<NamedImage<'w>, Fault<'w>> {
        let path = name.path;
        if name.is_stream() {
            return Err(Fault::new(path, Reason::NoImage));
        }
        let file = Fault::of(path, open_file(rt, path, Access::Read))?;
        let failures = Failures::none(rt.alloc())?;
        let image = file.into_image(&failures)?;
        Ok(NamedImage {
            path,
            image,
            failures,
        })
    }

    /// Returns the number of blocks.
    pub(crate) fn size(&self) -> u32 {
        self.image.size()
    }

    /// Returns whether the image is a plain file.
    pub(crate) fn is_plain(&self, rt: &HostRuntime) -> bool {
        match fs::metadata(rt, self.path) {
            Ok(metadata) => metadata.is_file(),
            Err(_error) => false,
        }
    }

    /// Reads a block. Returns zeros if the image doesn't have it.
    pub(crate) fn block_or_zeros(&mut self, block: u32) -> Result<[u8; 512], Fault<'w>> {
        let mut bytes = [0; 512];
        if block < self.size() {
            self.read_block(block, &mut bytes)?;
        }
        Ok(bytes)
    }

    /// Reads a block of the image into `to`.
    pub(crate) fn read_block(&mut self, block: u32, to: &mut [u8; 512]) -> Result<(), Fault<'w>> {
        if block >= self.image.size() {
            return Err(self.fault_of(block));
        }
        match self.image.read(block, to) {
            Ok(()) => Ok(()),
            Err(_error) => Err(self.fault_of(block)),
        }
    }

    /// Reads consecutive blocks in one call, as many as `to` has room for. Returns whether it read all of
    /// them.
    pub(crate) fn try_read_blocks(&mut self, start: u32, to: &mut [u8]) -> bool {
        let Ok(count) = u32::try_from(to.len() / 512) else {
            return false;
        };
        let on_image = match start.checked_add(count) {
            Some(end) => end <= self.image.size(),
            None => false,
        };
        on_image && to.len() % 512 == 0 && self.image.try_read_blocks(start, count, to)
    }

    /// Returns the fault of a copy for a block that can't be read.
    pub(crate) fn copy_fault(&self, block: u32) -> Fault<'w> {
        Fault::new(self.path, source_reason(block, &self.failures))
    }

    // Returns the fault of a block that can't be read.
    fn fault_of(&self, block: u32) -> Fault<'w> {
        let reason = block_reason(block, StoreError::Read, &self.failures);
        Fault::new(self.path, reason)
    }
}

/// Opens the file of an image, and takes its lock.
pub(crate) fn open_file(
    rt: &HostRuntime,
    path: &str,
    access: Access,
) -> Result<OpenImageFile, Reason> {
    match OpenImageFile::open(rt, path, access) {
        Ok(file) => Ok(file),
        Err(error) => Err(reason(error)),
    }
}

/// Returns the reason why an image can't be opened.
pub(crate) fn reason(error: OpenError) -> Reason {
    match error {
        OpenError::System(error) => Reason::of(error),
        OpenError::NotPlain => Reason::NotPlain,
        OpenError::InUse => Reason::InUse,
        OpenError::Mounted => Reason::Mounted,
        OpenError::Length(bytes) => Reason::Image(ImageReason::Length(bytes)),
        OpenError::TooLarge(blocks) => Reason::Image(ImageReason::TooLarge(blocks)),
    }
}

/// Returns the reason why a block can't be read or written, which is the system's if that is known.
pub(crate) fn block_reason(block: u32, error: StoreError, failures: &Failures) -> Reason {
    match failures.lowest() {
        Some(failure) if failure.block == block && is_told(&failure.cause) => cause_of(&failure),
        _ => Reason::Image(ImageReason::Block { block, error }),
    }
}

/// Returns the reason why a block of a copy's source can't be read: the file became shorter, or that of any block.
pub(crate) fn source_reason(block: u32, failures: &Failures) -> Reason {
    match failures.lowest() {
        Some(failure)
            if failure.block == block && failure.cause.kind() == ErrorKind::UnexpectedEof => {
            Reason::Copy(CopyReason::SourceEnded(block))
        }
        _ => block_reason(block, StoreError::Read, failures),
    }
}

/// Returns the fault of the lowest block that failed, if the system's reason is known.
pub(crate) fn failure_fault<'w>(path: &'w str, failures: &Failures) -> Option<Fault<'w>> {
    match failures.lowest() {
        Some(failure) if is_told(&failure.cause) => Some(Fault::new(path, cause_of(&failure))),
        _ => None,
    }
}

// Returns the reason for a failure.
fn cause_of(failure: &Failure) -> Reason {
    let Failure {
        block,
        error,
        cause,
    } = *failure;
    Reason::Image(ImageReason::BlockCause {
        block,
        error,
        cause,
    })
}

/// Returns the fault of an image that can't be synced, with the system's reason if it is known.
pub(crate) fn sync_fault<'w>(path: &'w str, failures: &Failures) -> Fault<'w> {
    Fault::new(
        path,
        match failures.sync() {
            Some(error) => Reason::Image(ImageReason::SyncFailed(error)),
            None => Reason::Image(ImageReason::NotSynced),
        },
    )
}

// Returns whether an error is one of the system. The end of a file that was shortened is none.
fn is_told(error: &io::Error) -> bool {
    error.kind() != ErrorKind::UnexpectedEof && error.kind() != ErrorKind::WriteZero
}

/// Returns whether the file of an image can be opened for writing.
pub(crate) fn is_writable(rt: &HostRuntime, image: ImageName<'_>) -> bool {
    !image.protected && OpenOptions::new().write(true).open(rt, image.path).is_ok()
}
