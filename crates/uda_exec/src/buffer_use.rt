//! The part of host memory that a command uses.
//!
//! MSCP Basic Disk Functions Manual: transfer commands, Compare Host Data.
ghost use Rattle.std.specs.Prelude.{◌≡◌};
ghost use Rattle.uda_exec.specs.BufferUse.{buffer_use, used_length, changed_length, bytes_moved};
ghost use Rattle.uda_exec.specs.Commands.{buffer_length, memory_write_length};

use crate::compare::compared;
use crate::refusal::transfer_buffer_length;
use uda_packet::{EndBody, GuestCommand, GuestOp, Kind, Op, ReplyBody};

/// The buffer of a command, and how many of its bytes the command uses.
#[derive(Clone, Copy, Debug, PartialEq, Eq)]
pub struct BufferUse {
    /// The address of the buffer. It is 0 if the command has none.
    pub start: u32,
    /// The number of bytes that the command may read or change.
    pub used: u32,
    /// The number of bytes that it may change, counted from the start.
    pub changed: u32,
}

/// Returns the part of host memory that a command uses.
pub fn buffer_use(asked: GuestCommand) -> BufferUse
    ensures { result ≡ buffer_use asked }
{
    BufferUse {
        start: compared(asked.command.op).buffer,
        used: used_length(asked.op, asked.command.op),
        changed: changed_length(asked.op, asked.command.op),
    }
}

/// Returns the byte count of an end message, if its command is one of the strict profile, or else 0. A Read has
/// moved that many bytes to its buffer. The rest of its buffer isn't part of its result.
///
/// MSCP Basic Disk Functions Manual: end messages, byte count.
pub fn bytes_moved(body: ReplyBody) -> u32
    ensures bytes { result ≡ bytes_moved body }
{
    match body {
        ReplyBody::Basic(EndBody::Moved { bytes, .. }) => bytes,
        _ => 0,
    }
}

// Returns the number of bytes of its buffer that a command may read or change.
fn used_length(op: GuestOp, command: Op) -> u32
    ensures { result ≡ used_length op command }
{
    match op {
        GuestOp::Compare => compared(command).bytes,
        GuestOp::Basic | GuestOp::SetUnit => buffer_length(command),
    }
}

// Returns the number of bytes of its buffer that a command may change.
fn changed_length(op: GuestOp, command: Op) -> u32
    ensures { result ≡ changed_length op command }
{
    match op {
        GuestOp::Basic => memory_write_length(command),
        GuestOp::SetUnit | GuestOp::Compare => 0,
    }
}

// Returns the length of the buffer of a command without an additional operation.
fn buffer_length(command: Op) -> u32
    ensures { result ≡ buffer_length command }
{
    match command.transfer() {
        Some(t) => transfer_buffer_length(t),
        None => 0,
    }
}

// Returns the number of bytes of its buffer that such a command may change: only a Read changes memory.
fn memory_write_length(command: Op) -> u32
    ensures { result ≡ memory_write_length command }
{
    match command.transfer() {
        Some(t) if matches!(t.kind, Kind::Read) => t.bytes,
        _ => 0,
    }
}
