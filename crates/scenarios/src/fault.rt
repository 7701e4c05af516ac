//! Why a line of a case can't be executed.
use std::alloc::{AllocError, AllocFailed};
use std::fmt;
use uda_image::ImageError;
use uda_mem::NoMemory;

/// Why a line of a case can't be executed.
#[derive(Clone, Copy)]
pub enum CaseFault {
    /// The line needs a word of this kind, and has none.
    Wanted(&'static str),
    /// The line has more words than its step accepts.
    MoreWords,
    /// An address isn't in memory, or is odd although it is that of a word.
    Address,
    /// A memory of this size isn't possible.
    Memory,
    /// The executor has no room for one more command.
    Full,
    /// An allocation failed.
    NoMemory,
}

impl fmt::Display for CaseFault {
    fn fmt<W: fmt::Write>(&self, f: &mut fmt::Formatter<W>) -> fmt::Result {
        match self {
            CaseFault::Wanted(kind) => write!(f, "wanted {kind}"),
            CaseFault::MoreWords => f.write_str("more words than the step takes"),
            CaseFault::Address => f.write_str("no such address in memory"),
            CaseFault::Memory => f.write_str("no such memory"),
            CaseFault::Full => f.write_str("no room for one more command"),
            CaseFault::NoMemory => f.write_str("out of memory"),
        }
    }
}

impl From<AllocError> for CaseFault {
    fn from(_: AllocError) -> Self {
        CaseFault::NoMemory
    }
}

impl<T: Drop> From<AllocFailed<T>> for CaseFault {
    fn from(_: AllocFailed<T>) -> Self {
        CaseFault::NoMemory
    }
}

impl From<NoMemory> for CaseFault {
    fn from(_: NoMemory) -> Self {
        CaseFault::NoMemory
    }
}

impl From<ImageError> for CaseFault {
    fn from(error: ImageError) -> Self {
        match error {
            ImageError::NoMemory => CaseFault::NoMemory,
            _ => CaseFault::Wanted("fewer blocks"),
        }
    }
}
