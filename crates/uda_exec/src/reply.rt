//! End messages of commands.
//!
//! MSCP Basic Disk Functions Manual: end messages.
ghost use Rattle.std.specs.Prelude.{◌≡◌};
ghost use Rattle.uda_exec.specs.Effect.{plain_body, reply};
ghost use Rattle.uda_exec.specs.SetUnit.{guest_reply};
ghost use Rattle.uda_disk.specs.RequestEffect.{refusal_status};

use uda_disk::Refusal;
use uda_packet::{Command, End, EndBody, Op, Reply, ReplyBody};

// Returns the body of an end message with this byte count, if its opcode has one, and all other numbers 0.
pub fn plain_body(op: Op, bytes: u32) -> EndBody
    ensures { result ≡ plain_body op bytes }
{
    match op.blank_body() {
        EndBody::Moved { kind, .. } => EndBody::Moved { kind, bytes },
        body => body,
    }
}

// Returns the end message of a command, with this status and this body.
pub fn reply(command: Command, status: u16, body: EndBody) -> End
    ensures { result ≡ reply command status body }
{
    End {
        reference: command.reference,
        unit: command.unit,
        status,
        body,
    }
}

// Returns the end message of a rejected command, with all numbers 0.
pub fn refuse(command: Command, refusal: Refusal) -> End
    ensures { result ≡ reply command (refusal_status refusal) (plain_body command.op 0) }
{
    reply(command, refusal.status(), plain_body(command.op, 0))
}

/// Returns the end message of a command of the compatible profile, with this status and this body.
pub fn guest_reply(command: Command, status: u16, body: ReplyBody) -> Reply
    ensures { result ≡ guest_reply command status body }
{
    Reply {
        reference: command.reference,
        unit: command.unit,
        status,
        body,
    }
}
