//! The errors of a driver, with their printed texts.
ghost use Rattle.std.specs.Prelude.{Some};
ghost use Rattle.uda_driver.specs.Display.{run_error_display, start_error_display};

use crate::driver::RunError;
use std::error::Error;
use std::fmt;
use uda_image::{BlockStore, Drive};

/// Memory allocation for a driver failed. The error has the drives, unchanged.
#[derive(Drop)]
pub struct StartError<S: BlockStore> {
    /// The drives.
    pub drives: [Option<Drive<S>>; 4],
}

impl<S: BlockStore> fmt::Debug for StartError<S> {
    fn fmt<W: fmt::Write>(&self, f: &mut fmt::Formatter<W>) -> fmt::Result {
        f.write_str("StartError")
    }
}

impl<S: BlockStore> fmt::Display for StartError<S> {
    ghost output = { λ _. Some start_error_display };

    fn fmt<W: fmt::Write>(&self, f: &mut fmt::Formatter<W>) -> fmt::Result {
        f.write_str("out of memory")
    }
}

impl<S: BlockStore + Drop> Error for StartError<S> {}

impl fmt::Display for RunError {
    ghost output = { λ error. Some (run_error_display error) };

    fn fmt<W: fmt::Write>(&self, f: &mut fmt::Formatter<W>) -> fmt::Result {
        match self {
            RunError::NoMemory => f.write_str("out of memory"),
            RunError::TooMany => f.write_str("more than 4096 requests"),
        }
    }
}

impl Error for RunError {}
