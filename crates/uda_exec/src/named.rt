//! Search for pending commands by their unit and reference.
//!
//! MSCP Basic Disk Functions Manual: Abort, Get Command Status.
ghost use Rattle.std.specs.Prelude.{◌≡◌, position, find};
ghost use Rattle.uda_exec.specs.Commands.{bytes_asked};
ghost use Rattle.uda_exec.specs.Named.{is_named, is_named_transfer, progress_of};

use uda_packet::{Command, Op};

// Returns whether a command is for this unit and has this reference.
fn is_named(command: Command, unit: u16, reference: u32) -> bool
    ensures { result ≡ is_named unit reference command }
{
    command.unit == unit && command.reference == reference
}

// Returns whether such a command is a transfer.
fn is_named_transfer(command: Command, unit: u16, reference: u32) -> bool
    ensures { result ≡ is_named_transfer unit reference command }
{
    is_named(command, unit, reference) && command.op.transfer().is_some()
}

/// Returns the index of the oldest command of this unit and reference.
pub fn place_named(pending: &[Command], unit: u16, reference: u32) -> Option<usize>
    ensures { result ≡ position (is_named unit reference) pending.now }
{
    pending.iter().position(|c| is_named(*c, unit, reference))
}

/// Returns the byte count of the oldest transfer of this unit and reference, and 0 if there is none.
pub fn progress(pending: &[Command], unit: u16, reference: u32) -> u32
    ensures { result ≡ progress_of unit reference pending.now }
{
    match transfer_named(pending, unit, reference) {
        None => 0,
        Some(command) => bytes_asked(command.op),
    }
}

// Returns the oldest transfer of this unit and reference.
fn transfer_named(pending: &[Command], unit: u16, reference: u32) -> Option<Command>
    ensures { result ≡ find (is_named_transfer unit reference) pending.now }
{
    pending
        .iter()
        .copied()
        .find(|c| is_named_transfer(*c, unit, reference))
}

// Returns the byte count of a transfer, and 0 for any other operation.
fn bytes_asked(op: Op) -> u32
    ensures { result ≡ bytes_asked op }
{
    op.transfer().map_or(0, |t| t.bytes)
}
