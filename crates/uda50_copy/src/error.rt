//! The errors of a copy.
ghost use Rattle.std.specs.Prelude.{◌≡◌};
ghost use Rattle.uda50_copy.specs.Copy.{unit_of};

use std::alloc::AllocError;
use std::fmt;
use thiserror::Error;
use uda_driver::RunError;

/// One of the two drives.
#[derive(Clone, Copy, Debug, PartialEq, Eq)]
pub enum Side {
    /// The drive that is read, unit 0.
    Source,
    /// The drive that is written, unit 1.
    Target,
}

impl Side {
    /// Returns the number of the unit.
    pub fn unit(self) -> u16
        ensures source { self ≡ Side.Source → result ≡ 0 }
        ensures target { self ≡ Side.Target → result ≡ 1 }
        ensures unit { result ≡ unit_of self }
    {
        match self {
            Side::Source => 0,
            Side::Target => 1,
        }
    }
}

/// The reason why a copy stopped. The text doesn't name the drive.
#[derive(Clone, Copy, Debug, PartialEq, Eq, Error)]
pub enum CopyError {
    /// An allocation failed.
    #[error("out of memory")]
    NoMemory,
    /// A block can't be read.
    #[error("block {1} can't be read")]
    Read(Side, u32),
    /// A block can't be written.
    #[error("block {0} can't be written")]
    Write(u32),
    /// A block of the target differs from that of the source.
    #[error("block {0} differs")]
    Differs(u32),
    /// The controller rejected a request.
    #[error("a request was rejected with status {1:04x}")]
    Rejected(Side, u16),
}

impl CopyError {
    /// Returns the drive that the error concerns, if it concerns one.
    pub fn side(self) -> Option<Side> {
        match self {
            CopyError::NoMemory => None,
            CopyError::Read(side, _) | CopyError::Rejected(side, _) => Some(side),
            CopyError::Write(_) | CopyError::Differs(_) => Some(Side::Target),
        }
    }
}

impl From<AllocError> for CopyError {
    fn from(_: AllocError) -> Self {
        CopyError::NoMemory
    }
}

impl From<RunError> for CopyError {
    fn from(_: RunError) -> Self {
        CopyError::NoMemory
    }
}
