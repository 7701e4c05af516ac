//! The error of a port that couldn't be allocated.
ghost use Rattle.std.specs.Prelude.{Some};
ghost use Rattle.uda_port.specs.Display.{port_alloc_error_display};

use std::error::Error;
use std::fmt;

/// The allocation of a port failed. The error returns the unchanged executor: `E` is the
/// [`Exec`](uda_exec::Exec) that was given.
#[derive(Debug, Drop)]
pub struct PortAllocError<E> {
    /// The executor.
    pub exec: E,
}

impl<E> fmt::Display for PortAllocError<E> {
    ghost output = { λ _. Some port_alloc_error_display };

    fn fmt<W: fmt::Write>(&self, f: &mut fmt::Formatter<W>) -> fmt::Result {
        f.write_str("out of memory")
    }
}

impl<E: fmt::Debug + Drop> Error for PortAllocError<E> {}
