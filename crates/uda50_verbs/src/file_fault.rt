//! Faults of the verbs that write files, which name a file by its role.

use crate::fault::{Fault, PROGRAM, Suffix};
use crate::reason::Reason;
use crate::streams::stream_name;
use std::alloc::AllocError;
use std::io;
use std::io::ErrorKind;
use uda50_arguments::Copy;

/// What a fault concerns: a file of a copy, or of `create`, which has only a target.
#[derive(Clone, Copy)]
pub(crate) enum FileRole {
    /// The image to read.
    Source,
    /// The stream to read.
    Stream,
    /// The target, or a file whose name is made from its name.
    Target,
    /// The map that `--map` names, or a file whose name is made from its name.
    Map,
    /// The program.
    Program,
}

impl FileRole {
    /// Makes a fault of this file.
    pub(crate) fn fault(self, reason: Reason) -> FileFault {
        FileFault {
            role: self,
            suffix: Suffix::None,
            reason,
        }
    }

    /// Returns the result of a call of the system on this file, with the fault if it failed.
    pub(crate) fn of_call<T>(self, called: io::Result<T>) -> Result<T, FileFault> {
        match called {
            Ok(value) => Ok(value),
            Err(error) => Err(self.fault(Reason::of(error))),
        }
    }

    /// Returns a result, with the fault of this file if there is a reason for one.
    pub(crate) fn of<T>(self, done: Result<T, Reason>) -> Result<T, FileFault> {
        match done {
            Ok(value) => Ok(value),
            Err(reason) => Err(self.fault(reason)),
        }
    }

    // Returns the name in faults of a copy with these arguments.
    fn name<'w>(self, copy: &Copy<'w>) -> &'w str {
        match self {
            FileRole::Source => copy.from.path,
            FileRole::Stream => stream_name(copy.from.path),
            FileRole::Target => copy.to.path,
            FileRole::Map => copy.map.unwrap_or(copy.to.path),
            FileRole::Program => PROGRAM,
        }
    }
}

/// A fault, with the file that it concerns.
#[derive(Drop)]
pub(crate) struct FileFault {
    /// The file, or the one from whose name its name is made.
    pub(crate) role: FileRole,
    /// What follows that name in the name of the file.
    pub(crate) suffix: Suffix,
    /// The reason.
    pub(crate) reason: Reason,
}

impl FileFault {
    /// Makes the fault of a failed allocation.
    pub(crate) fn no_memory() -> FileFault {
        FileRole::Program.fault(Reason::NoMemory)
    }

    /// Returns the fault with its name in a copy with these arguments.
    pub(crate) fn named<'w>(self, copy: &Copy<'w>) -> Fault<'w> {
        Fault::of_derived(self.role.name(copy), self.suffix, self.reason)
    }

    /// Returns the fault with its name, if the target is this file.
    pub(crate) fn of_target(self, path: &str) -> Fault<'_> {
        match self.role {
            FileRole::Program => Fault::new(PROGRAM, self.reason),
            _ => Fault::of_derived(path, self.suffix, self.reason),
        }
    }

    /// Returns whether the fault is that a folder permits no new name in it.
    pub(crate) fn forbids_names(&self) -> bool {
        match &self.reason {
            Reason::PermissionDenied => true,
            Reason::System(error) => matches!(
                error.kind(),
                ErrorKind::ReadOnlyFilesystem | ErrorKind::ResourceBusy | ErrorKind::CrossesDevices
            ),
            _ => false,
        }
    }
}

impl From<AllocError> for FileFault {
    fn from(_: AllocError) -> Self {
        FileFault::no_memory()
    }
}
