//! The record of a controller's last turn for C.
ghost use Rattle.std.specs.Prelude.{◌≡◌};
ghost use Rattle.uda_c.specs.Last.{told_number, told_command, told_end, turn_record, TellsLine};

use crate::call_status::CallStatus;
use crate::text::put_c_string;
use std::alloc::Global;
use uda_packet::{EndBody, GuestCommand, Reply, ReplyBody};
use uda_port::Trace;

/// The record of a turn, in the form of C. Fields that don't apply are 0.
#[repr(C)]
#[derive(Clone, Copy, Debug, PartialEq, Eq)]
pub struct TurnRecord {
    /// The number of bytes of C's struct.
    pub size: usize,
    /// The number of the turn's kind.
    pub kind: u32,
    /// The command's reference number.
    pub reference: u32,
    /// The first block of a transfer that was fetched.
    pub lbn: u32,
    /// The byte count of a transfer: the requested one, or the one that its end message reports.
    pub bytes: u32,
    /// The command's unit number.
    pub unit: u16,
    /// The opcode of a command, the end code of an end message, or the code of the fatal error.
    pub code: u16,
    /// The status word of an end message.
    pub status: u16,
}

impl TurnRecord {
    /// The number of bytes of the struct.
    pub const SIZE: usize = 32;

    /// Returns the record of a trace, or of no turn yet.
    pub fn of(trace: Option<Trace>) -> TurnRecord
        ensures told { result ≡ turn_record trace }
    {
        match trace {
            Some(Trace::Idle) => TurnRecord::plain(0, 0),
            Some(Trace::Fetched(command)) => TurnRecord::of_command(command),
            Some(Trace::Executed(end)) => TurnRecord::of_end(2, end),
            Some(Trace::Delivered(end)) => TurnRecord::of_end(3, end),
            Some(Trace::Dead(cause)) => TurnRecord::plain(5, cause.code()),
            Some(Trace::InvalidCommand(end)) => TurnRecord::of_end(6, end),
            Some(Trace::Answered(end)) => TurnRecord::of_end(8, end),
            Some(Trace::Aborted(end)) => TurnRecord::of_end(9, end),
            Some(Trace::Notified) => TurnRecord::plain(4, 0),
            None => TurnRecord::plain(7, 0),
        }
    }

    // Returns the record of a turn without a command.
    fn plain(kind: u32, code: u16) -> TurnRecord
        ensures { result ≡ told_number kind code }
    {
        TurnRecord {
            size: TurnRecord::SIZE,
            kind,
            reference: 0,
            lbn: 0,
            bytes: 0,
            unit: 0,
            code,
            status: 0,
        }
    }

    // Returns the record of a fetch.
    fn of_command(asked: GuestCommand) -> TurnRecord
        ensures { result ≡ told_command asked }
    {
        let GuestCommand { command, op } = asked;
        let (lbn, bytes) = match command.op.transfer() {
            Some(t) => (t.lbn, t.bytes),
            None => (0, 0),
        };
        TurnRecord {
            size: TurnRecord::SIZE,
            kind: 1,
            reference: command.reference,
            lbn,
            bytes,
            unit: command.unit,
            code: u16::from(op.opcode(command.op)),
            status: 0,
        }
    }

    // Returns the record of a turn with an end message.
    fn of_end(kind: u32, end: Reply) -> TurnRecord
        ensures { result ≡ told_end kind end }
    {
        let bytes = match end.body {
            ReplyBody::Basic(EndBody::Moved { bytes, .. }) | ReplyBody::Compare { bytes } => bytes,
            _ => 0,
        };
        TurnRecord {
            size: TurnRecord::SIZE,
            kind,
            reference: end.reference,
            lbn: 0,
            bytes,
            unit: end.unit,
            code: u16::from(end.body.code()),
            status: end.status,
        }
    }
}

/// Writes the line of a turn into a buffer, as a string of C. If the allocation of the line fails, the buffer
/// is unchanged.
pub fn put_last_line(alloc: Global, last: Option<Trace>, buffer: &mut [u8]) -> CallStatus
    ensures accurate { TellsLine last buffer.old result buffer.new }
{
    let Some(trace) = last else {
        put_c_string(buffer, "");
        return CallStatus::Done;
    };
    match trace.to_string(alloc) {
        Ok(line) => {
            put_c_string(buffer, &line);
            CallStatus::Done
        }
        Err(_) => CallStatus::NoMemory,
    }
}
