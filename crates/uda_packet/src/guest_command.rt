//! Commands of the compatible profile. Two of them are unknown to the strict profile.
//!
//! MSCP Basic Disk Functions Manual: Set Unit Characteristics, Compare Host Data.

ghost use Rattle.std.specs.Prelude.{◌≡◌, Some};
ghost use Rattle.uda_packet.specs.GuestCommands.{guest_name, opcode_meant, guest_command_display};
ghost use Rattle.uda_packet.specs.GuestCommands.{blank_reply};

use crate::command::{Command, Op};
use crate::end::EndBody;
use crate::reply::ReplyBody;
use std::fmt;

/// The operation that a guest requests with a command.
///
/// MSCP Basic Disk Functions Manual: opcodes.
#[derive(Clone, Copy, PartialEq, Eq, Debug, Default)]
pub enum GuestOp {
    /// The command itself, which the strict profile knows too.
    #[default]
    Basic,
    /// Set Unit Characteristics. The command is an Online with the same request for software protection.
    SetUnit,
    /// Compare Host Data. The command is a Read of the blocks and the buffer that are compared.
    Compare,
}

/// A command of the compatible profile: a command of the strict profile, and the operation to execute with
/// it.
///
/// MSCP Basic Disk Functions Manual: command messages.
#[derive(Clone, Copy, PartialEq, Eq, Debug)]
pub struct GuestCommand {
    /// The command. Its operation has the parameters.
    pub command: Command,
    /// The operation to execute with it.
    pub op: GuestOp,
}

impl GuestOp {
    /// Returns the opcode of a command with this operation.
    ///
    /// MSCP Basic Disk Functions Manual: opcodes.
    pub fn opcode(self, op: Op) -> u8
        ensures opcode { result ≡ opcode_meant self op }
    {
        match self {
            GuestOp::Basic => op.opcode(),
            GuestOp::SetUnit => 10,
            GuestOp::Compare => 32,
        }
    }

    /// Returns the name of a command with this operation.
    pub fn name(self, op: Op) -> &'static str
        ensures name { result.now ≡ guest_name self op }
    {
        match self {
            GuestOp::Basic => op.name(),
            GuestOp::SetUnit => "Set Unit Characteristics",
            GuestOp::Compare => "Compare Host Data",
        }
    }

    /// Returns the body of the command's end message, with all numbers 0.
    pub fn blank_reply(self, op: Op) -> ReplyBody
        ensures blank { result ≡ blank_reply self op }
    {
        match self {
            GuestOp::Basic => ReplyBody::Basic(op.blank_body()),
            GuestOp::SetUnit => ReplyBody::SetUnit { flags: 0, size: 0 },
            GuestOp::Compare => ReplyBody::Compare { bytes: 0 },
        }
    }
}

/// Writes a line such as `3 Compare Host Data unit 0 lbn 9 bytes 512`, or `4 Set Unit Characteristics unit
/// 0`.
impl fmt::Display for GuestCommand {
    ghost output = { λ command. Some (guest_command_display command) };

    fn fmt<W: fmt::Write>(&self, f: &mut fmt::Formatter<W>) -> fmt::Result {
        let GuestCommand { command, op } = *self;
        let Command {
            reference,
            unit,
            ..
        } = command;
        let name = op.name(command.op);
        match command.op.transfer() {
            Some(t) => write!(
                f,
                "{reference} {name} unit {unit} lbn {} bytes {}",
                t.lbn, t.bytes
            ),
            None => write!(f, "{reference} {name} unit {unit}"),
        }
    }
}
