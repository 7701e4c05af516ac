//! Observers of a run, turn by turn.

use uda_port::Trace;

/// An observer that receives each turn of the port during a run.
pub trait Watch {
    /// Receives one turn: its trace, and the number of commands that may be posted after it.
    fn see(&mut self, trace: &Trace, credits: u32);
}

/// An observer that does nothing.
#[derive(Clone, Copy, Debug, Default, PartialEq, Eq)]
pub struct Unwatched;

impl Watch for Unwatched {
    fn see(&mut self, _trace: &Trace, _credits: u32) {}
}
