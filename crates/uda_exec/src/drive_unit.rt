//! A unit with a drive, and the execution of its commands.
//!
//! MSCP Basic Disk Functions Manual: Access, Available, Erase, Get Unit Status, Online, Read and Write
//! commands.
ghost use Rattle.std.specs.Prelude.{◌≡◌, [], Some, None, IsSome, IfSome, length};
ghost use Rattle.uda_mem.specs.Slices.{IsMemory};
ghost use Rattle.uda_packet.specs.Transfer.{transfer_of};
ghost use Rattle.uda_disk.specs.Request.{Act};
ghost use Rattle.uda_disk.specs.RequestEffect.{Done, mode_after, answer_on};
ghost use Rattle.uda_disk.specs.Units.{IsWellFormed, IsWellFormedIfSound, disk_of, attributes_of};
ghost use Rattle.uda_exec.specs.Commands.{act_of};
ghost use Rattle.uda_exec.specs.Effect.{end_for};
ghost use Rattle.uda_exec.specs.Drives.{drive_state, drive_in, fresh_unit, info_of};
ghost use Rattle.uda_exec.specs.Execution.{ServesUnit};
ghost use Rattle.uda_exec.specs.SetUnit.{unit_set, set_unit_reply, protection_asked};
ghost use Rattle.uda_exec.specs.Compare.{compared, ComparesUnit};
ghost use Rattle.uda_exec.specs.BufferChecks.{transfer_refusal};

use crate::block_transfer::{BLOCK, move_blocks};
use crate::compare::{compare_blocks, compared};
use crate::refusal::transfer_refusal;
use crate::reply::{guest_reply, plain_body, refuse, reply};
use std::marker::Model;
use uda_disk::Mode;
use uda_image::{BlockStore, Drive};
use uda_packet::{Command, End, EndBody, Op, Reply, ReplyBody, Transfer, status};

/// A unit with a drive: the store of its blocks, and its mode.
#[derive(Drop)]
pub struct DriveUnit<S: BlockStore> {
    store: S,
    mode: Mode,
}

/// The mode and the size of a unit with a drive.
#[derive(Clone, Copy, Debug, PartialEq, Eq)]
pub struct UnitInfo {
    /// Whether the unit is online, and its write protection.
    pub mode: Mode,
    /// The size in blocks.
    pub size: u32,
}

impl UnitInfo {
    /// The mode and the size that a unit without a drive has for a host: no protection and no blocks.
    pub const ABSENT: UnitInfo = UnitInfo {
        mode: Mode {
            online: false,
            hard: false,
            soft: false,
        },
        size: 0,
    };
}

impl<S: BlockStore> Model for DriveUnit<S> {
    ghost use Rattle.uda_disk.specs.Units.{UnitState};

    ghost Value = { UnitState };

    ghost view = { λ u. record { store = S.state u.store; mode = u.mode } };
}

impl<S: BlockStore> DriveUnit<S> {
    /// Returns a unit with this drive: available, without software write protection.
    pub fn new(drive: Drive<S>) -> Self
        ensures unit { result ≡ fresh_unit (drive_state S.state drive) }
        ensures image { IsWellFormed (Some result) }
        ensures image_if_sound { IsWellFormedIfSound (Some result) }
    {
        let Drive { store, hard } = drive;
        let mode = Mode {
            online: false,
            hard,
            soft: false,
        };
        DriveUnit { store, mode }
    }

    /// Returns the drive, with its hardware write protection.
    pub fn into_drive(self) -> Drive<S>
        ensures drive { drive_state S.state result ≡ drive_in self }
    {
        let DriveUnit { store, mode } = self;
        Drive {
            store,
            hard: mode.hard,
        }
    }

    /// Returns the unit's mode and size.
    pub fn look(&self) -> UnitInfo
        ensures info { result ≡ info_of self.now }
    {
        UnitInfo {
            mode: self.mode,
            size: self.store.size(),
        }
    }

    /// Returns the store of the unit's blocks.
    pub fn store(&self) -> &S
        ensures store { S.state result.now ≡ self.now.store }
    {
        &self.store
    }

    /// Makes the unit available, without software write protection.
    pub fn reset(&mut self)
        ensures unit { self.new ≡ fresh_unit (drive_in self.old) }
    {
        self.mode = self.mode.available();
    }

    /// Sets the mode of the unit.
    pub fn restore(&mut self, mode: Mode)
        ensures unit { self.new ≡ record self.old { mode = mode } }
    {
        self.mode = mode;
    }

    // Executes an Access, Erase, Read or Write: all checks, and then the blocks.
    fn transfer(&mut self, command: Command, t: Transfer, memory: &mut [u8]) -> End
        requires memory { IsMemory memory.old }
        requires transfer { transfer_of command.op ≡ Some t }
        ensures serves { (act : Act) → act_of command.op memory.old ≡ Some act
            → ServesUnit command act self.old memory.old result self.new memory.new }
        ensures image { IsWellFormed (Some self.new) }
        ensures image_if_sound { IsWellFormedIfSound (Some self.new) }
        ensures image_before { IsWellFormedIfSound (Some self.old) }
    {
        if let Some(refusal) = transfer_refusal(
            t,
            uda_mem::len(memory),
            self.store.size(),
            self.mode,
        ) {
            return refuse(command, refusal);
        }
        let (status, bytes) = match move_blocks(t, &mut self.store, memory) {
            Ok(()) => (status::SUCCESS, t.bytes),
            Err(lost) => (status::DRIVE_ERROR, BLOCK * lost.block),
        };
        reply(command, status, plain_body(command.op, bytes))
    }

    // Executes a Get Unit Status, an Available or an Online. The status of a Get Unit Status reports whether
    // the unit is available or online. An Available succeeds on an available unit too, and an Online changes
    // nothing of an online unit.
    fn set_mode(&mut self, command: Command) -> End
        requires transfer { transfer_of command.op ≡ None }
        requires unit { IsSome (act_of command.op []) }
        ensures end { IfSome (act_of command.op []) (λ act.
            result ≡ end_for command (answer_on Done act (disk_of self.old))) }
        ensures unit { IfSome (act_of command.op []) (λ act.
            self.new ≡ record self.old { mode = mode_after act self.old.mode }) }
        ensures image { IsWellFormed (Some self.new) }
        ensures image_if_sound { IsWellFormedIfSound (Some self.new) }
        ensures image_before { IsWellFormedIfSound (Some self.old) }
    {
        let was_online = self.mode.online;
        match command.op {
            Op::Available => {
                self.mode = self.mode.available();
                reply(command, status::SUCCESS, EndBody::Available)
            }
            Op::Online { soft } => {
                self.mode = self.mode.online(soft.unwrap_or(false));
                let status = if was_online {
                    status::ALREADY_ONLINE
                } else {
                    status::SUCCESS
                };
                let (flags, size) = (self.mode.flags(), self.store.size());
                reply(command, status, EndBody::Online { flags, size })
            }
            Op::Status => {
                let status = if was_online {
                    status::SUCCESS
                } else {
                    status::AVAILABLE
                };
                let flags = self.mode.flags();
                reply(command, status, EndBody::Status { flags })
            }
            Op::Controller
            | Op::Access { .. }
            | Op::Erase { .. }
            | Op::Read { .. }
            | Op::Write { .. } => unreachable!(),
        }
    }

    /// Executes a command of this unit and returns its end message. Every command except Set Controller
    /// Characteristics is allowed.
    pub fn execute(&mut self, command: Command, memory: &mut [u8]) -> End
        requires memory { IsMemory memory.old }
        requires unit { IsSome (act_of command.op []) }
        ensures serves { (act : Act) → act_of command.op memory.old ≡ Some act
            → ServesUnit command act self.old memory.old result self.new memory.new }
        ensures image { IsWellFormed (Some self.new) }
        ensures image_if_sound { IsWellFormedIfSound (Some self.new) }
        ensures image_before { IsWellFormedIfSound (Some self.old) }
    {
        match command.op.transfer() {
            Some(t) => self.transfer(command, t, memory),
            None => self.set_mode(command),
        }
    }

    /// Executes a Set Unit Characteristics: sets the software write protection if the command asks for it.
    ///
    /// MSCP Basic Disk Functions Manual: Set Unit Characteristics.
    pub fn set_characteristics(&mut self, command: Command) -> Reply
        ensures reply { result ≡ set_unit_reply command (Some (Some self.old)) }
        ensures unit { self.new ≡ unit_set command.op self.old }
        ensures image { IsWellFormed (Some self.old) → IsWellFormed (Some self.new) }
    {
        if let Some(soft) = protection_asked(command.op) {
            self.mode.soft = soft;
        }
        let (flags, size) = (self.mode.flags(), self.store.size());
        guest_reply(command, status::SUCCESS, ReplyBody::SetUnit { flags, size })
    }

    /// Executes a Compare Host Data: the checks of a Read, and then the comparison. No block changes.
    ///
    /// MSCP Basic Disk Functions Manual: Compare Host Data.
    pub fn compare(&mut self, command: Command, memory: &[u8]) -> Reply
        requires memory { IsMemory memory.now }
        ensures compares { ComparesUnit
            (transfer_refusal (compared command.op) (length memory.now) self.old.store.size self.old.mode)
            command self.old memory.now result self.new }
        ensures image { IsWellFormed (Some self.new) }
        ensures attributes { attributes_of self.new ≡ attributes_of self.old }
    {
        let t = compared(command.op);
        if let Some(refusal) = transfer_refusal(
            t,
            uda_mem::len(memory),
            self.store.size(),
            self.mode,
        ) {
            return guest_reply(command, refusal.status(), ReplyBody::Compare { bytes: 0 });
        }
        let verdict = compare_blocks(t, &mut self.store, memory);
        let bytes = verdict.bytes(t);
        guest_reply(command, verdict.status(), ReplyBody::Compare { bytes })
    }
}

// Returns the software write protection that a Set Unit Characteristics asks for, or None if it asks for no
// change.
fn protection_asked(op: Op) -> Option<bool>
    ensures { result ≡ protection_asked op }
{
    match op {
        Op::Online { soft } => soft,
        Op::Status
        | Op::Controller
        | Op::Available
        | Op::Access { .. }
        | Op::Erase { .. }
        | Op::Read { .. }
        | Op::Write { .. } => None,
    }
}
