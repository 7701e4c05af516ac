//! Commands that only the compatible profile has.
//!
//! MSCP Basic Disk Functions Manual: Set Unit Characteristics, Compare Host Data.
ghost use Rattle.std.specs.Prelude.{◌≡◌, ◌≤◌, Some, length, option_map, set, slice_get, unwrap_or};
ghost use Rattle.uda_mem.specs.Slices.{IsMemory};
ghost use Rattle.uda_disk.specs.Units.{IsWellFormed, AreWellFormed, unit_attributes};
ghost use Rattle.uda_exec.specs.SetUnit.{SetsUnit, set_unit_reply, unit_set};
ghost use Rattle.uda_exec.specs.Compare.{ComparesUnits, ComparesSlot};
ghost use Rattle.uda_exec.specs.GuestExecution.{ExecutesAs};

use crate::drive_unit::DriveUnit;
use crate::executor::execute;
use crate::reply::guest_reply;
use uda_image::BlockStore;
use uda_packet::{Command, GuestCommand, GuestOp, Reply, ReplyBody, status};

/// Executes one command with its additional operation.
pub fn execute_as<S: BlockStore>(
    units: &mut [Option<DriveUnit<S>>],
    asked: GuestCommand,
    memory: &mut [u8],
) -> Reply
    requires memory { IsMemory memory.old }
    requires well_formed { AreWellFormed units.old }
    ensures executes { ExecutesAs asked.op asked.command units.old memory.old result units.new memory.new }
    ensures well_formed { AreWellFormed units.new }
    ensures all_attributes { unit_attributes units.new ≡ unit_attributes units.old }
    ensures count { length units.new ≡ length units.old }
    ensures length { length memory.new ≡ length memory.old }
{
    match asked.op {
        GuestOp::Basic => Reply::basic(execute(units, asked.command, memory)),
        GuestOp::SetUnit => set_unit(units, asked.command),
        GuestOp::Compare => compare(units, asked.command, memory),
    }
}

// Executes a Set Unit Characteristics.
fn set_unit<S: BlockStore>(units: &mut [Option<DriveUnit<S>>], command: Command) -> Reply
    requires well_formed { AreWellFormed units.old }
    ensures reply { result ≡ set_unit_reply command (slice_get units.old command.unit) }
    ensures units { units.new ≡ set units.old command.unit
        (option_map (unit_set command.op) (unwrap_or (slice_get units.old command.unit) None)) }
    ensures well_formed { AreWellFormed units.new }
{
    let unit = usize::from(command.unit);
    if unit >= units.len() {
        return guest_reply(
            command,
            status::UNIT_UNKNOWN,
            ReplyBody::SetUnit { flags: 0, size: 0 },
        );
    }
    set_one(&mut units[unit], command)
}

// Executes it on its unit.
fn set_one<S: BlockStore>(unit: &mut Option<DriveUnit<S>>, command: Command) -> Reply
    ensures reply { result ≡ set_unit_reply command (Some unit.old) }
    ensures unit { unit.new ≡ option_map (unit_set command.op) unit.old }
    ensures image { IsWellFormed unit.old → IsWellFormed unit.new }
{
    match unit {
        None => guest_reply(
            command,
            status::NO_VOLUME,
            ReplyBody::SetUnit { flags: 0, size: 0 },
        ),
        Some(unit) => unit.set_characteristics(command),
    }
}

// Executes a Compare Host Data.
fn compare<S: BlockStore>(
    units: &mut [Option<DriveUnit<S>>],
    command: Command,
    memory: &[u8],
) -> Reply
    requires memory { IsMemory memory.now }
    requires well_formed { AreWellFormed units.old }
    ensures slot { ComparesSlot (slice_get units.old command.unit) command units.old memory.now result
        units.new }
    ensures well_formed { AreWellFormed units.new }
    ensures all_attributes { unit_attributes units.new ≡ unit_attributes units.old }
    ensures count { length units.new ≡ length units.old }
{
    let unit = usize::from(command.unit);
    if unit >= units.len() {
        return guest_reply(
            command,
            status::UNIT_UNKNOWN,
            ReplyBody::Compare { bytes: 0 },
        );
    }
    match &mut units[unit] {
        None => guest_reply(command, status::NO_VOLUME, ReplyBody::Compare { bytes: 0 }),
        Some(unit) => unit.compare(command, memory),
    }
}
