//! Trace records: what a turn did, with the command or end message.
//!
//! UDA50 Programmer's Documentation Kit: command ring polling, message envelopes, fatal errors.
ghost use Rattle.std.specs.Prelude.{◌≡◌, Some};
ghost use Rattle.uda_port.specs.Trace.{turn_of, trace_display};

use crate::phase::Fatal;
use crate::turn::Turn;
use std::fmt;
use uda_packet::{EndBody, GuestCommand, Reply, ReplyBody};

/// What a turn did: a [`Turn`] with its command or end message.
#[derive(Clone, Copy, Debug, PartialEq, Eq)]
pub enum Trace {
    /// The port fetched this command, which is now pending.
    Fetched(GuestCommand),
    /// The port fetched an invalid command, and queued this end message.
    InvalidCommand(Reply),
    /// The port fetched a command that is ended at once, and queued this end message.
    Answered(Reply),
    /// The port fetched an Abort, which removed a pending command. The end message of that command is queued,
    /// and this one follows it.
    Aborted(Reply),
    /// The port executed a pending command, and queued this end message.
    Executed(Reply),
    /// The port delivered this end message to the response ring.
    Delivered(Reply),
    /// The port delivered an attention message to the response ring.
    Notified,
    /// The port did nothing, as with [`Turn::Idle`].
    Idle,
    /// The port did nothing, since it is dead of this cause. The fatal error may have occurred in this turn.
    Dead(Fatal),
}

impl Trace {
    /// Returns the [`Turn`] of the record.
    pub fn turn(self) -> Turn
        ensures turn { result ≡ turn_of self }
    {
        match self {
            Trace::Fetched(_) | Trace::InvalidCommand(_) => Turn::Fetched,
            Trace::Answered(_) | Trace::Aborted(_) => Turn::Fetched,
            Trace::Executed(_) => Turn::Executed,
            Trace::Delivered(_) => Turn::Delivered,
            Trace::Notified => Turn::Notified,
            Trace::Idle => Turn::Idle,
            Trace::Dead(_) => Turn::Dead,
        }
    }
}

/// Formats the record as a line:
///
/// - `fetched 3 Read unit 0 lbn 9 bytes 512`
/// - `executed 3 Read unit 0 status 0x0000 bytes 512`
/// - `delivered 4 Online unit 0 status 0x0000`
/// - `refused 0 invalid command unit 0 status 0x0001`
/// - `answered 5 Flush unit 0 status 0x0000`
/// - `aborted 6 Abort unit 0 status 0x0000`
/// - `notified`
/// - `idle`
/// - `dead of code 10`
impl fmt::Display for Trace {
    ghost output = { λ trace. Some (trace_display trace) };

    fn fmt<W: fmt::Write>(&self, f: &mut fmt::Formatter<W>) -> fmt::Result {
        match *self {
            Trace::Fetched(command) => write!(f, "fetched {command}"),
            Trace::InvalidCommand(end) => write!(f, "refused {}", EndLine(end)),
            Trace::Answered(end) => write!(f, "answered {}", EndLine(end)),
            Trace::Aborted(end) => write!(f, "aborted {}", EndLine(end)),
            Trace::Executed(end) => write!(f, "executed {}", EndLine(end)),
            Trace::Delivered(end) => write!(f, "delivered {}", EndLine(end)),
            Trace::Notified => f.write_str("notified"),
            Trace::Idle => f.write_str("idle"),
            Trace::Dead(cause) => {
                let code = cause.code();
                write!(f, "dead of code {code}")
            }
        }
    }
}

// An end message in the format of a trace line.
#[derive(Drop)]
struct EndLine(Reply);

impl fmt::Display for EndLine {
    ghost use Rattle.uda_port.specs.Trace.{end_line};

    ghost output = { λ line. Some (end_line line.0) };

    fn fmt<W: fmt::Write>(&self, f: &mut fmt::Formatter<W>) -> fmt::Result {
        let Reply {
            reference,
            unit,
            status,
            body,
        } = self.0;
        let name = body.name();
        match body {
            ReplyBody::Basic(EndBody::Moved { bytes, .. }) | ReplyBody::Compare { bytes } => write!(
                f,
                "{reference} {name} unit {unit} status 0x{status:04x} bytes {bytes}"
            ),
            _ => write!(f, "{reference} {name} unit {unit} status 0x{status:04x}"),
        }
    }
}
