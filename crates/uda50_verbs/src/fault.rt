//! Faults: the reasons why a verb ended early, with names.

use crate::reason::Reason;
use std::alloc::AllocError;
use std::io::ErrorKind;
use std::{fmt, io};
use uda50_show::EscapedName;

/// The name of the program in faults.
pub(crate) const PROGRAM: &str = "uda50";

/// The name of standard input in faults.
pub(crate) const STANDARD_INPUT: &str = "standard input";

/// The name of standard output in faults.
pub(crate) const STANDARD_OUTPUT: &str = "standard output";

/// The name of standard error in faults.
pub(crate) const STANDARD_ERROR: &str = "standard error";

/// The end of the name of a file, if that is made from another one's.
#[derive(Clone, Copy, PartialEq, Eq)]
pub(crate) enum Suffix {
    /// It is the other name itself.
    None,
    /// The file is an incomplete copy.
    Part,
    /// The file is the map of a copy.
    Map,
    /// The file is the map of an incomplete copy.
    PartMap,
    /// A map that was named is written to the file first.
    New,
    /// The map of a copy is written to the file first.
    MapNew,
    /// The map of an incomplete copy is written to the file first.
    PartMapNew,
}

impl Suffix {
    /// Returns the text.
    pub(crate) fn text(self) -> &'static str {
        match self {
            Suffix::None => "",
            Suffix::Part => ".part",
            Suffix::Map => ".map",
            Suffix::PartMap => ".part.map",
            Suffix::New => ".new",
            Suffix::MapNew => ".map.new",
            Suffix::PartMapNew => ".part.map.new",
        }
    }

    /// Returns the suffix of the file to which a map with this one is written first.
    pub(crate) fn of_new(self) -> Suffix {
        match self {
            Suffix::Map | Suffix::MapNew => Suffix::MapNew,
            Suffix::PartMap | Suffix::PartMapNew => Suffix::PartMapNew,
            Suffix::None | Suffix::Part | Suffix::New => Suffix::New,
        }
    }
}

/// A fault, with the file or stream that it concerns.
#[derive(Drop)]
pub(crate) struct Fault<'w> {
    /// The path of the file, or the name of the stream.
    pub(crate) name: &'w str,
    /// What follows the path in the name of the file.
    pub(crate) suffix: Suffix,
    /// The reason.
    pub(crate) reason: Reason,
}

impl<'w> Fault<'w> {
    /// Makes a fault of a file or a stream.
    pub(crate) fn new(name: &'w str, reason: Reason) -> Fault<'w> {
        Fault::of_derived(name, Suffix::None, reason)
    }

    /// Makes a fault of a file whose name is another one's with a suffix.
    pub(crate) fn of_derived(name: &'w str, suffix: Suffix, reason: Reason) -> Fault<'w> {
        Fault {
            name,
            suffix,
            reason,
        }
    }

    /// Makes the fault of a failed allocation.
    pub(crate) fn no_memory() -> Fault<'w> {
        Fault::new(PROGRAM, Reason::NoMemory)
    }

    /// Makes the fault of a failed call of the system on a file.
    pub(crate) fn system(name: &'w str, error: io::Error) -> Fault<'w> {
        Fault::new(name, Reason::of(error))
    }

    /// Returns the result of a call of the system on a file, with the fault if it failed.
    pub(crate) fn of_call<T>(name: &'w str, called: io::Result<T>) -> Result<T, Fault<'w>> {
        match called {
            Ok(value) => Ok(value),
            Err(error) => Err(Fault::system(name, error)),
        }
    }

    /// Returns a result, with the fault of a file if there is a reason for one.
    pub(crate) fn of<T>(name: &'w str, done: Result<T, Reason>) -> Result<T, Fault<'w>> {
        match done {
            Ok(value) => Ok(value),
            Err(reason) => Err(Fault::new(name, reason)),
        }
    }

    /// Prints the line of the fault to standard error.
    pub(crate) fn print(&self, rt: &HostRuntime) {
        let _ = eprintln!(rt; "uda50: {self}");
    }

    /// Returns whether the fault is only that the reader of standard output closed it.
    pub(crate) fn is_closed_output(&self) -> bool {
        match &self.reason {
            Reason::System(error) => {
                self.name == STANDARD_OUTPUT && error.kind() == ErrorKind::BrokenPipe
            }
            _ => false,
        }
    }
}

impl<'w> From<AllocError> for Fault<'w> {
    fn from(_: AllocError) -> Self {
        Fault::no_memory()
    }
}

impl<'w> From<io::Error> for Fault<'w> {
    fn from(error: io::Error) -> Self {
        Fault::system(STANDARD_OUTPUT, error)
    }
}

/// Writes a text such as `disk.img: no such file`.
impl fmt::Display for Fault<'_> {
    fn fmt<W: fmt::Write>(&self, f: &mut fmt::Formatter<W>) -> fmt::Result {
        write!(
            f,
            "{}{}: {}",
            EscapedName(self.name),
            self.suffix.text(),
            self.reason
        )
    }
}
