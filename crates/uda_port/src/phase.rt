//! Phases of a port, and fatal errors.
//!
//! UDA50 Programmer's Documentation Kit: initialization, fatal errors.
ghost use Rattle.std.specs.Prelude.{◌≡◌, ◌≤◌};
ghost use Rattle.uda_port.specs.Startup.{sa_of, code_of};
ghost use Rattle.uda_port.specs.Possible.{has_run, is_of_turn};

use std::error::Error;
use std::fmt;

/// The phase of a port. A phase of initialization contains the words that were accepted before it.
///
/// UDA50 Programmer's Documentation Kit: initialization.
#[derive(Clone, Copy, Debug, PartialEq, Eq)]
pub enum Phase {
    /// The port waits for the first word: the lengths of the rings, and the interrupt vector.
    Step1,
    /// The port waits for the second word: the low part of the ring base.
    Step2 {
        /// The first word.
        first: u16,
    },
    /// The port waits for the third word: the high part of the ring base.
    Step3 {
        /// The first word.
        first: u16,
        /// The second word.
        second: u16,
    },
    /// Wrap mode of the compatible profile. SA shows each word that the host writes to it, until the host
    /// writes IP.
    Wrap {
        /// The last word that the host wrote.
        word: u16,
    },
    /// The port waits for a write of 0 to SA, the purge test.
    PurgeTest,
    /// The port waits for a read of IP, the poll test.
    PollTest,
    /// The port waits for the fourth word, with the go bit.
    Step4,
    /// The port is running.
    Running,
    /// A fatal error occurred. The port does nothing until the host writes IP.
    Dead {
        /// The error.
        cause: Fatal,
    },
}

/// The cause of a fatal error.
///
/// UDA50 Programmer's Documentation Kit: fatal errors.
#[derive(Clone, Copy, Debug, PartialEq, Eq)]
pub enum Fatal {
    /// Code 1: the port can't read a command packet. Its envelope or its text isn't in memory, or its address
    /// is odd in the strict profile.
    PacketRead,
    /// Code 2: the port can't write a response packet, for the same reasons. In the strict profile also: the
    /// buffer's length word is under 48.
    PacketWrite,
    /// Code 6: the next descriptor of a ring isn't in memory.
    RingRead,
    /// Code 7: the communication area isn't in memory during initialization.
    RingWrite,
    /// Code 10: the port fetched a command although the host had no credit left. Only in the strict profile.
    CreditsExceeded,
    /// Code 14: an envelope has an invalid connection or message type.
    InvalidConnection,
    /// Code 19: a word of initialization asks for an unsupported feature. Only in the strict profile.
    InitializationError,
}

impl Fatal {
    /// Returns the code that SA shows in addition to bit 15.
    ///
    /// UDA50 Programmer's Documentation Kit: fatal errors.
    pub fn code(self) -> u16
        ensures code { result ≡ code_of self }
        ensures small { result ≤ 19 }
    {
        match self {
            Fatal::PacketRead => 1,
            Fatal::PacketWrite => 2,
            Fatal::RingRead => 6,
            Fatal::RingWrite => 7,
            Fatal::CreditsExceeded => 10,
            Fatal::InvalidConnection => 14,
            Fatal::InitializationError => 19,
        }
    }

    /// Returns whether a turn of a running port meets the error. A word of initialization meets the others.
    pub fn is_of_turn(self) -> bool
        ensures of_turn { result ≡ is_of_turn self }
    {
        !matches!(self, Fatal::RingWrite | Fatal::InitializationError)
    }
}

impl fmt::Display for Fatal {
    fn fmt<W: fmt::Write>(&self, f: &mut fmt::Formatter<W>) -> fmt::Result {
        f.write_str(match self {
            Fatal::PacketRead => "a command packet can't be read",
            Fatal::PacketWrite => "a response packet can't be written",
            Fatal::RingRead => "a descriptor can't be read",
            Fatal::RingWrite => "the communication area can't be written",
            Fatal::CreditsExceeded => "the host exceeded its credits",
            Fatal::InvalidConnection => "an envelope is of another connection or message type",
            Fatal::InitializationError => "a start-up word asks for what this port hasn't",
        })
    }
}

impl Error for Fatal {}

impl Phase {
    /// Returns what SA shows:
    ///
    /// - the step and its echo in steps 1 to 4;
    /// - the last word that the host wrote in wrap mode;
    /// - 0 during the purge and poll test, and while the port runs;
    /// - bit 15 with the code of the fatal error if the port is dead.
    ///
    /// UDA50 Programmer's Documentation Kit: initialization.
    pub fn sa(self) -> u16
        ensures sa { result ≡ sa_of self }
    {
        match self {
            Phase::Step1 => 0x0800,
            Phase::Step2 { first } => 0x1000 | first >> 8,
            Phase::Step3 { first, .. } => 0x2000 | first & 0xff,
            Phase::Wrap { word } => word,
            Phase::Step4 => 0x4063,
            Phase::PurgeTest | Phase::PollTest | Phase::Running => 0,
            Phase::Dead { cause } => 0x8000 | cause.code(),
        }
    }

    /// Returns whether the port runs, or ran until a turn met a fatal error.
    pub fn has_run(self) -> bool
        ensures run { result ≡ has_run self }
    {
        match self {
            Phase::Running => true,
            Phase::Dead { cause } => cause.is_of_turn(),
            _ => false,
        }
    }
}
