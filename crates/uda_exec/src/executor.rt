//! The executor: four units, and the pending commands.
//!
//! MSCP Basic Disk Functions Manual: unit states, command ordering.
ghost use Rattle.std.specs.Prelude.{◌≡◌, ℕ, ◌+◌, ◌-◌, ◌*◌, ◌<◌, ◌≤◌, [], ◌∷◌, ◌++◌, length, map, option_map};
ghost use Rattle.std.specs.Prelude.{IsNone, IfNone, IfSome, IsTrue, Some, None, ◌↔◌, remove, set, slice_get, unwrap_or};
ghost use Rattle.std.specs.Prelude.{if◌then◌else◌};
ghost use Rattle.uda_mem.specs.Put.{part};
ghost use Rattle.uda_mem.specs.Slices.{IsMemory};
ghost use Rattle.uda_disk.specs.Units.{IsWellFormed, AreWellFormed, is_faithful, is_infallible};
ghost use Rattle.uda_disk.specs.Units.{IsWellFormedIfSound, AreWellFormedIfSound};
ghost use Rattle.uda_exec.specs.Disks.{PENDING_LIMIT, FIRST_POSITION};
ghost use Rattle.uda_exec.specs.Commands.{is_controller, transfer_buffer_length};
ghost use Rattle.uda_exec.specs.Drives.{drive_state, drive_states, drive_in, fresh_unit, fresh_units};
ghost use Rattle.uda_exec.specs.Drives.{drives_in, returned_drive, reset_unit, with_drive, info_at, ABSENT};
ghost use Rattle.uda_exec.specs.Drives.{in_mode, with_mode, store_at};
ghost use Rattle.uda_exec.specs.Execution.{Executes, ExecutesAt};
ghost use Rattle.uda_exec.specs.Named.{oldest_named, guest_op_named, taken_out, aborted, progress_of};
ghost use Rattle.uda_exec.specs.GuestOps.{op_at, with_accepted, newest_guest};
ghost use Rattle.uda_exec.specs.GuestExecution.{ExecutesGuestAt};
ghost use Rattle.uda_exec.specs.BufferUse.{buffer_use_at, guest_at};
ghost use Rattle.uda_exec.specs.BlockUse.{transfer_used_at, block_use_at, written_at, size_written};
ghost use Rattle.uda_exec.specs.Order.{IsEligible};
ghost use Rattle.uda_exec.specs.Saved.{saved_exec, exec_fits, exec_restored, infos_of, units_restored, unit_restored};

use crate::block_use::{BlockUse, fill_written, range_of, size_written, transfer_by, used_by};
use crate::buffer_use::{BufferUse, buffer_use};
use crate::drive_unit::{DriveUnit, UnitInfo};
use crate::guest_commands::execute_as;
use crate::guest_ops::{GuestOps, drop_op, note_op, op_at};
use crate::named::{place_named, progress};
use crate::reply::{guest_reply, plain_body, refuse, reply};
use crate::saved::{SavedExec, copied, units_fit};
use crate::scheduler::{Position, is_eligible, next_place};
use arrayvec::ArrayVec;
use std::fmt;
use std::marker::Model;
use uda_disk::{Mode, Refusal};
use uda_image::{BlockStore, Drive};
use uda_mem::HostMemory;
use uda_packet::{Command, End, GuestCommand, Op, Reply, Transfer, status};

/// The maximum number of pending commands, which is also the most that a host may have outstanding.
pub const PENDING: usize = 15;

/// Four units, numbered from 0, and the commands that were accepted and aren't executed yet.
///
/// A unit has a drive or none. A unit with a drive is available or online, and has hardware write protection,
/// software write protection, both or neither. Contracts read the store and the mode of each drive, the
/// pending commands with the oldest first, and the additional operation of each. The executor itself neither
/// allocates nor uses a file; only its stores may.
///
/// MSCP Basic Disk Functions Manual: unit states, write protection, command ordering.
#[derive(Drop)]
pub struct Exec<S: BlockStore> {
    units: [Option<DriveUnit<S>>; 4],
    pending: ArrayVec<Command, PENDING>,
    guest_ops: GuestOps,
    position: Position,
}

// The position of the last transfer decides which command is next. Contracts see it, so that an executor can
// be saved and restored, but no contract says how it decides.
impl<S: BlockStore> Model for Exec<S> {
    ghost use Rattle.uda_exec.specs.Disks.{ExecState};
    ghost use Rattle.uda_disk.specs.Units.{AreWellFormed};
    ghost use Rattle.arrayvec.specs.ArrayVec.{array_vec_len};
    ghost use Rattle.std.specs.Prelude.{◌≡◌, ◌≤◌, length};

    ghost Value = { ExecState };

    ghost view = { λ e. record {
      units = e.units;
      pending = e.pending.items;
      guest_ops = e.guest_ops.items;
      position = e.position;
    } };

    ghost invariant = { λ e. (length e.units ≡ 4) × (AreWellFormed e.units
        × (length e.guest_ops.items ≤ length e.pending.items)) };
}

fn unit_from<S: BlockStore>(drive: Option<Drive<S>>) -> Option<DriveUnit<S>>
    ensures unit { result ≡ option_map fresh_unit (option_map (drive_state S.state) drive) }
    ensures image { IsWellFormed result }
    ensures image_if_sound { IsWellFormedIfSound result }
{
    match drive {
        None => None,
        Some(drive) => Some(DriveUnit::new(drive)),
    }
}

fn units_from<S: BlockStore>(drives: [Option<Drive<S>>; 4]) -> [Option<DriveUnit<S>>; 4]
    ensures units { result ≡ fresh_units (drive_states S.state drives) }
    ensures four_units { length result ≡ 4 }
    ensures well_formed { AreWellFormed result }
    ensures well_formed_if_sound { AreWellFormedIfSound result }
{
    let [a, b, c, d] = drives;
    [unit_from(a), unit_from(b), unit_from(c), unit_from(d)]
}

impl<S: BlockStore> Exec<S> {
    /// Returns an executor with drive `drives[u]` as unit `u`; None is a unit without a drive.
    ///
    /// Nothing is pending. Every unit with a drive is available, with the drive's hardware write protection
    /// and no software write protection. The call uses no store.
    ///
    /// MSCP Basic Disk Functions Manual: unit states.
    pub fn new(drives: [Option<Drive<S>>; 4]) -> Exec<S>
        ensures units { result.units ≡ fresh_units (drive_states S.state drives) }
        ensures pending { result.pending ≡ [] }
        ensures guest_ops { result.guest_ops ≡ [] }
        ensures position { result.position ≡ FIRST_POSITION }
        ensures four_units { length result.units ≡ 4 }
        ensures well_formed { AreWellFormed result.units }
        ensures well_formed_if_sound { AreWellFormedIfSound result.units }
    {
        Exec {
            units: units_from(drives),
            pending: ArrayVec::new(),
            guest_ops: ArrayVec::new(),
            position: Position::START,
        }
    }

    /// Queues `command` after the pending ones. It changes neither units nor memory, and checks no field of
    /// the command. Every command gets an end message from [`execute_one`](Exec::execute_one), whatever its
    /// unit number and parameters.
    ///
    /// There must be room: fewer than [`PENDING`] commands are pending ([`pending`](Exec::pending)).
    pub fn accept(&mut self, command: Command)
        requires room { length self.old.pending < PENDING_LIMIT }
        ensures last { self.new ≡ record self.old { pending = self.old.pending ++ command ∷ [] } }
    {
        self.pending.push(command);
    }

    /// Queues a command of the compatible profile after the pending ones, with its additional operation.
    /// Otherwise it is as [`accept`](Exec::accept). The end message comes from
    /// [`execute_at_in`](Exec::execute_at_in).
    #[inline(always)]
    pub fn accept_guest(&mut self, asked: GuestCommand)
        requires room { length self.old.pending < PENDING_LIMIT }
        ensures last { self.new ≡ with_accepted self.old asked }
        ensures op { op_at self.new.guest_ops (length self.old.pending) ≡ asked.op }
    {
        note_op(&mut self.guest_ops, self.pending.len(), asked.op);
        self.pending.push(asked.command);
    }

    /// Returns the number of pending commands: those that were accepted and have no end message yet. It is at
    /// most [`PENDING`].
    pub fn pending(&self) -> usize
        ensures count { result ≡ length self.now.pending }
        ensures within { result ≤ PENDING_LIMIT }
    {
        self.pending.len()
    }

    /// Returns the mode and the size of a unit, or None if it has no drive or doesn't exist.
    pub fn unit(&self, unit: usize) -> Option<UnitInfo>
        ensures info { result ≡ info_at (slice_get self.now.units unit) }
    {
        let unit = self.units.get(unit)?.as_ref()?;
        Some(unit.look())
    }

    /// Returns the store of a unit, or None if it has no drive or doesn't exist.
    pub fn store(&self, unit: usize) -> Option<&S>
        ensures store { option_map (λ s. S.state s.now) result ≡ store_at (slice_get self.now.units unit) }
    {
        let unit = self.units.get(unit)?.as_ref()?;
        Some(unit.store())
    }

    /// Returns the mode and the size of a unit, or [`UnitInfo::ABSENT`] if it has no drive or doesn't exist.
    pub fn unit_or_absent(&self, unit: usize) -> UnitInfo
        ensures info { result ≡ unwrap_or (info_at (slice_get self.now.units unit)) ABSENT }
    {
        match self.units.get(unit) {
            Some(Some(unit)) => unit.look(),
            _ => UnitInfo::ABSENT,
        }
    }

    /// Returns the pending command that was accepted last, or None.
    pub fn newest(&self) -> Option<Command>
        ensures newest { result ≡ slice_get self.now.pending (length self.now.pending - 1) }
    {
        self.pending.last().copied()
    }

    /// Returns the pending command that was accepted last, with its additional operation, or None.
    pub fn newest_guest(&self) -> Option<GuestCommand>
        ensures newest { result ≡ newest_guest self.now }
    {
        let command = self.newest()?;
        let op = op_at(self.guest_ops.as_slice(), self.pending.len() - 1);
        Some(GuestCommand { command, op })
    }

    /// Removes the oldest pending command of this unit and reference without executing it, and returns its
    /// end message. The end message has the command's own end code, status 0x0002, and all numbers 0. If
    /// there is no such command, nothing changes and the result is None.
    ///
    /// MSCP Basic Disk Functions Manual: Abort.
    pub fn abort(&mut self, unit: u16, reference: u32) -> Option<Reply>
        ensures end { result ≡ option_map (aborted (guest_op_named unit reference self.old))
            (oldest_named unit reference self.old.pending) }
        ensures taken { self.new ≡ taken_out unit reference self.old }
        ensures fewer { IfSome result (λ _. length self.new.pending + 1 ≡ length self.old.pending) }
        ensures none { IfNone result (self.new ≡ self.old) }
    {
        let place = place_named(self.pending.as_slice(), unit, reference)?;
        let op = op_at(self.guest_ops.as_slice(), place);
        let named = remove_pending(&mut self.pending, place);
        drop_op(&mut self.guest_ops, place);
        Some(guest_reply(named, status::ABORTED, op.blank_reply(named.op)))
    }

    /// Returns the byte count of the oldest pending transfer of this unit and reference, or 0 if there is
    /// none.
    ///
    /// MSCP Basic Disk Functions Manual: Get Command Status.
    pub fn progress(&self, unit: u16, reference: u32) -> u32
        ensures progress { result ≡ progress_of unit reference self.now.pending }
    {
        progress(self.pending.as_slice(), unit, reference)
    }

    /// Executes one eligible pending command, removes it, and returns its end message. Returns None if
    /// nothing is pending, and then nothing changes.
    ///
    /// The command is executed as the strict profile does, without its additional operation.
    /// [`execute_at_in`](Exec::execute_at_in) executes that, too.
    ///
    /// A command is eligible if for each older one either the units differ or both are transfers. The
    /// contract leaves open which eligible command is chosen. The code takes the oldest that isn't a
    /// transfer. If there is none, it takes the next transfer in unit and block order, at or after the
    /// position of the last one. If none follows, it takes the very first.
    ///
    /// In `memory` only the buffer of a Read changes, and of the units only the command's own. A command that
    /// is rejected changes nothing. Its status is that of the first check that fails, in this order:
    ///
    /// | Status | Requirement that isn't met | Commands |
    /// |---|---|---|
    /// | 0x0003 | the unit number is 3 or less | all but Set Controller Characteristics |
    /// | 0x0023 | the unit has a drive | all but Set Controller Characteristics |
    /// | 0x0004 | the unit is online | transfers |
    /// | 0x0029 | the buffer's address is even | Read, Write |
    /// | 0x0049 | the byte count is even | transfers |
    /// | 0x1C01 | the first block is below the unit's size | transfers |
    /// | 0x0C01 | the range is within the unit | transfers |
    /// | 0x2006 | no hardware write protection | Erase, Write |
    /// | 0x1006 | no software write protection | Erase, Write |
    /// | 0x0069 | the buffer is wholly in memory | Read, Write |
    ///
    /// Set Controller Characteristics concerns no unit and succeeds. The checks compute with unbounded
    /// integers, so no sum wraps.
    ///
    /// A byte count that isn't a multiple of 512 has a partial block at its end. A Read reads that block
    /// whole and puts its first bytes into the buffer. A Write writes its bytes followed by zeros. An Erase
    /// and an Access use the block whole.
    ///
    /// An accepted Access of at least one block first calls `check_blocks` of its store. Of the blocks that are
    /// left, a transfer of two or more whole blocks asks for several at once. Access and Read call
    /// `try_read_blocks`, Erase and Write `try_write_blocks`. An Access and an Erase ask for at most 32 blocks a
    /// call. If the store declines, the transfer calls `read` or `write` for one block at a time, in rising
    /// order. An Access and an Erase ask for several blocks again at each 32nd block of the range, and there an
    /// Access calls `check_blocks` again. A Read and a Write always use a single call for a partial block.
    ///
    /// The first call that fails ends the transfer with status 0x000B, and with the byte count of the blocks
    /// before. The failing block of a Write or an Erase, or its part of a Read's buffer, may then hold
    /// anything. Later blocks and bytes are unchanged if the store is sound afterwards. Other commands call a store only for
    /// its size.
    ///
    /// MSCP Basic Disk Functions Manual: commands and end messages, status and event codes, command ordering.
    #[tactic(auto, using(crate::proofs::Changes::wholes))]
    pub fn execute_one(&mut self, memory: &mut HostMemory) -> Option<End>
        ensures none_iff_empty { IsNone result ↔ (self.old.pending ≡ []) }
        ensures unchanged { IfNone result ((self.new ≡ self.old) × (memory.new ≡ memory.old)) }
        ensures fewer { IfSome result (λ _. length self.new.pending + 1 ≡ length self.old.pending) }
        ensures four_units { length self.new.units ≡ 4 }
        ensures well_formed { AreWellFormed self.new.units }
        ensures length { length memory.new ≡ length memory.old }
        ensures faithful { (u : ℕ) → is_faithful (slice_get self.new.units u)
            ≡ is_faithful (slice_get self.old.units u) }
        ensures infallible { (u : ℕ) → is_infallible (slice_get self.new.units u)
            ≡ is_infallible (slice_get self.old.units u) }
        ensures executes { IfSome result (λ end.
            (j : ℕ) × ExecutesAt j self.old memory.old end self.new memory.new) }
    {
        self.execute_one_in(memory.as_mut_slice())
    }

    // Does the same over a slice.
    fn execute_one_in(&mut self, memory: &mut [u8]) -> Option<End>
        requires memory { IsMemory memory.old }
        ensures none_iff_empty { IsNone result ↔ (self.old.pending ≡ []) }
        ensures unchanged { IfNone result ((self.new ≡ self.old) × (memory.new ≡ memory.old)) }
        ensures fewer { IfSome result (λ _. length self.new.pending + 1 ≡ length self.old.pending) }
        ensures four_units { length self.new.units ≡ 4 }
        ensures well_formed { AreWellFormed self.new.units }
        ensures length { length memory.new ≡ length memory.old }
        ensures faithful { (u : ℕ) → is_faithful (slice_get self.new.units u)
            ≡ is_faithful (slice_get self.old.units u) }
        ensures infallible { (u : ℕ) → is_infallible (slice_get self.new.units u)
            ≡ is_infallible (slice_get self.old.units u) }
        ensures executes { IfSome result (λ end.
            (j : ℕ) × ExecutesAt j self.old memory.old end self.new memory.new) }
    {
        let place = next_place(self.pending.as_slice(), self.position)?;
        let command = remove_pending(&mut self.pending, place);
        drop_op(&mut self.guest_ops, place);
        self.position.move_to(command);
        Some(execute(&mut self.units, command, memory))
    }

    /// Returns the index of the pending command that [`execute_one`](Exec::execute_one) executes next, or None if
    /// nothing is pending. The oldest pending command has index 0.
    #[inline(always)]
    pub fn next(&self) -> Option<usize>
        ensures none_iff_empty { IsNone result ↔ (self.now.pending ≡ []) }
        ensures eligible { IfSome result (λ place. IsEligible self.now.pending place) }
        ensures within { IfSome result (λ place. place < PENDING_LIMIT) }
    {
        next_place(self.pending.as_slice(), self.position)
    }

    /// Returns whether the pending command at this index exists and is eligible.
    pub fn may_execute(&self, place: usize) -> bool
        ensures eligible { IsTrue result ↔ IsEligible self.now.pending place }
    {
        place < self.pending.len() && is_eligible(self.pending.as_slice(), place)
    }

    // Returns the pending command at this index with its additional operation, or None if there is none.
    fn guest_at(&self, place: usize) -> Option<GuestCommand>
        ensures command { result ≡ guest_at self.now place }
    {
        let command = self.pending.get(place).copied()?;
        let op = op_at(self.guest_ops.as_slice(), place);
        Some(GuestCommand { command, op })
    }

    /// Returns the part of host memory that the pending command at this index uses, or None if there is no
    /// such command.
    pub fn buffer_use_at(&self, place: usize) -> Option<BufferUse>
        ensures buffer { result ≡ buffer_use_at self.now place }
    {
        let asked = self.guest_at(place)?;
        Some(buffer_use(asked))
    }

    // Returns the transfer of the pending command at this index if it moves blocks, in memory of this length.
    fn transfer_used_at(&self, place: usize, memory: u32) -> Option<Transfer>
        ensures transfer { result ≡ transfer_used_at self.now place memory }
    {
        let asked = self.guest_at(place)?;
        let t = transfer_by(asked)?;
        let info = self.unit(usize::from(asked.command.unit))?;
        used_by(t, memory, info)
    }

    /// Returns the blocks that the pending command at this index uses, in host memory of this length. Returns
    /// None if there is no such command, if one of its checks fails, or if it uses no blocks.
    pub fn block_use_at(&self, place: usize, memory: u32) -> Option<BlockUse>
        ensures blocks { result ≡ block_use_at self.now place memory }
    {
        let asked = self.guest_at(place)?;
        let t = self.transfer_used_at(place, memory)?;
        Some(range_of(asked, t))
    }

    /// Fills `to` with bytes of the blocks that the pending command at this index writes, after the first
    /// `skip` blocks, and returns true. These are the bytes of a Write's buffer, followed by zeros in a partial
    /// block, or an Erase's zeros. Returns false and changes nothing if there aren't as many bytes, as for a
    /// command that writes none or of which a check fails.
    ///
    /// MSCP Basic Disk Functions Manual: transfer commands, logical blocks.
    pub fn copy_written(&self, place: usize, memory: &[u8], skip: u32, to: &mut [u8]) -> bool
        requires memory { IsMemory memory.now }
        ensures fits { IsTrue result
            ↔ (512 * skip + length to.old ≤ length (written_at self.now place memory.now)) }
        ensures bytes { to.new ≡ (if result then part (written_at self.now place memory.now) (512 * skip) (length to.old)
            else to.old) }
    {
        let used = self.transfer_in(place, memory);
        if 512 * u64::from(skip) + to.len() as u64 > size_written(used) {
            return false;
        }
        if let Some(t) = used {
            fill_written(t, memory, skip, to);
        }
        true
    }

    // Returns the transfer of the pending command at this index if it moves blocks in this memory.
    fn transfer_in(&self, place: usize, memory: &[u8]) -> Option<Transfer>
        requires memory { IsMemory memory.now }
        ensures transfer { result ≡ transfer_used_at self.now place (length memory.now) }
        ensures in_memory { IfSome result (λ t. t.buffer + transfer_buffer_length t ≤ length memory.now) }
        ensures size { size_written result ≡ length (written_at self.now place memory.now) }
    {
        self.transfer_used_at(place, uda_mem::len(memory))
    }

    /// Executes the pending command at this index with its additional operation, removes it, and returns its end
    /// message. The command must be eligible ([`may_execute`](Exec::may_execute)). Otherwise it is as
    /// [`execute_one`](Exec::execute_one), over a slice. The length of the slice is even and at most
    /// [`SLICE_LIMIT`](uda_mem::SLICE_LIMIT) ([`is_memory`](uda_mem::is_memory)). Each call may get another slice.
    ///
    /// A Set Unit Characteristics sets the software write protection of a unit with a drive, if the command
    /// asks for it. The unit remains available or online.
    ///
    /// A Compare Host Data passes the checks of a Read, and changes neither blocks nor memory. It calls
    /// `read` once for each block, in rising order, up to the first byte that differs. Its status is then
    /// 0x0007, and its byte count is the number of bytes before the difference. If a call fails, the status
    /// is 0x000B with the byte count of the blocks before.
    ///
    /// MSCP Basic Disk Functions Manual: Set Unit Characteristics, Compare Host Data.
    #[inline(always)]
    pub fn execute_at_in(&mut self, place: usize, memory: &mut [u8]) -> Reply
        requires memory { IsMemory memory.old }
        requires eligible { IsEligible self.old.pending place }
        ensures fewer { length self.new.pending + 1 ≡ length self.old.pending }
        ensures four_units { length self.new.units ≡ 4 }
        ensures well_formed { AreWellFormed self.new.units }
        ensures length { length memory.new ≡ length memory.old }
        ensures executes { ExecutesGuestAt place self.old memory.old result self.new memory.new }
    {
        let op = op_at(self.guest_ops.as_slice(), place);
        let taken = remove_pending(&mut self.pending, place);
        drop_op(&mut self.guest_ops, place);
        self.position.move_to(taken);
        let asked = GuestCommand { command: taken, op };
        execute_as(&mut self.units, asked, memory)
    }

    /// Drops the pending commands, which get no end message. Makes every unit with a drive available, without
    /// software write protection. Hardware write protection and all blocks don't change.
    ///
    /// UDA50 Programmer's Documentation Kit: initialization.
    #[tactic(auto, using(crate::proofs::Units::images_reset))]
    pub fn reset(&mut self)
        ensures units { self.new.units ≡ map reset_unit self.old.units }
        ensures pending { self.new.pending ≡ [] }
        ensures guest_ops { self.new.guest_ops ≡ [] }
        ensures position { self.new.position ≡ FIRST_POSITION }
        ensures four_units { length self.new.units ≡ 4 }
        ensures well_formed { AreWellFormed self.new.units }
    {
        self.pending.clear();
        self.guest_ops.clear();
        self.position = Position::START;
        reset(&mut self.units);
    }

    /// Replaces the drive of a unit, or removes it (None), and returns the old drive. The old drive has its
    /// blocks as the commands left them, and its hardware write protection.
    ///
    /// The unit is then available, without software write protection, as after [`new`](Exec::new). The other
    /// units and the pending commands don't change. A pending command for this unit uses the drive that is
    /// present when the command executes. The call uses no store. If `unit` is above 3, nothing changes and
    /// the call returns the given drive.
    ///
    /// MSCP Basic Disk Functions Manual: unit states.
    pub fn set_drive(&mut self, unit: usize, drive: Option<Drive<S>>) -> Option<Drive<S>>
        ensures returned_drive { option_map (drive_state S.state) result
            ≡ returned_drive self.old.units unit (option_map (drive_state S.state) drive) }
        ensures set { self.new ≡ with_drive self.old unit (option_map (drive_state S.state) drive) }
        ensures four_units { length self.new.units ≡ 4 }
        ensures well_formed { AreWellFormed self.new.units }
    {
        exchange(&mut self.units, unit, drive)
    }

    /// Sets the mode of a unit. Its store, the other units and the pending commands don't change. It is for
    /// callers that removed a drive, changed its store, put it back, and want the unit in its former state.
    /// If the unit has no drive, or `unit` is above 3, nothing changes.
    ///
    /// MSCP Basic Disk Functions Manual: unit states.
    pub fn restore_mode(&mut self, unit: usize, mode: Mode)
        ensures mode { self.new ≡ with_mode self.old unit mode }
        ensures four_units { length self.new.units ≡ 4 }
        ensures well_formed { AreWellFormed self.new.units }
    {
        restore_at(&mut self.units, unit, mode);
    }

    /// Returns the whole state of the executor as a plain value, without its stores.
    pub fn save(&self) -> SavedExec
        ensures saved { result ≡ saved_exec self.now }
    {
        SavedExec {
            units: self.infos(),
            pending: copied(&self.pending),
            guest_ops: copied(&self.guest_ops),
            position: self.position,
        }
    }

    // Returns the mode and the size of each unit.
    #[tactic(auto, using(crate::proofs::Saving::four_infos))]
    fn infos(&self) -> [Option<UnitInfo>; 4]
        ensures infos { result ≡ infos_of self.now.units }
    {
        let _ = &self.units;
        [self.unit(0), self.unit(1), self.unit(2), self.unit(3)]
    }

    /// Returns whether the executor can continue from a saved state. Its units have drives where the saved
    /// ones had, of the same sizes and with the same hardware write protection. No operation is listed
    /// without its command.
    pub fn fits(&self, saved: &SavedExec) -> bool
        ensures fits { result ≡ exec_fits saved.now self.now }
    {
        saved.guest_ops.len() <= saved.pending.len() && units_fit(saved.units, self.infos())
    }

    /// Continues from a saved state that fits ([`fits`](Exec::fits)). Each unit gets its saved mode, and the
    /// pending commands and the position are replaced by the saved ones. The stores don't change. The call uses
    /// no store, and can't see whether the blocks are still the same.
    ///
    /// MSCP Basic Disk Functions Manual: unit states, command ordering.
    pub fn restore(&mut self, saved: &SavedExec)
        requires fits { IsTrue (exec_fits saved.now self.old) }
        ensures restored { self.new ≡ exec_restored saved.now self.old }
        ensures four_units { length self.new.units ≡ 4 }
        ensures well_formed { AreWellFormed self.new.units }
    {
        self.pending = copied(&saved.pending);
        self.guest_ops = copied(&saved.guest_ops);
        self.position = saved.position;
        restore_all(&mut self.units, saved.units);
    }

    /// Returns the drives: drive `u` is that of unit `u`, or None if it has none. Each has its blocks as the
    /// commands left them, and its hardware write protection. Drops the pending commands.
    pub fn into_stores(self) -> [Option<Drive<S>>; 4]
        ensures drives { drive_states S.state result ≡ drives_in self.units }
    {
        drives_of(self.units)
    }
}

impl<S: BlockStore> fmt::Debug for Exec<S> {
    fn fmt<W: fmt::Write>(&self, f: &mut fmt::Formatter<W>) -> fmt::Result {
        let looks = [self.unit(0), self.unit(1), self.unit(2), self.unit(3)];
        f.debug_struct("Exec")
            .field("units", &looks)
            .field("pending", &self.pending)
            .finish_non_exhaustive()
    }
}

fn drive_of<S: BlockStore>(unit: Option<DriveUnit<S>>) -> Option<Drive<S>>
    ensures { option_map (drive_state S.state) result ≡ option_map drive_in unit }
{
    match unit {
        None => None,
        Some(unit) => Some(unit.into_drive()),
    }
}

fn drives_of<S: BlockStore>(units: [Option<DriveUnit<S>>; 4]) -> [Option<Drive<S>>; 4]
    ensures { drive_states S.state result ≡ drives_in units }
{
    let [a, b, c, d] = units;
    [drive_of(a), drive_of(b), drive_of(c), drive_of(d)]
}

// Replaces the drive of a unit, and returns the old one.
fn exchange<S: BlockStore>(
    units: &mut [Option<DriveUnit<S>>],
    unit: usize,
    drive: Option<Drive<S>>,
) -> Option<Drive<S>>
    requires well_formed { AreWellFormed units.old }
    ensures returned_drive { option_map (drive_state S.state) result
        ≡ returned_drive units.old unit (option_map (drive_state S.state) drive) }
    ensures set { units.new
        ≡ set units.old unit (option_map fresh_unit (option_map (drive_state S.state) drive)) }
    ensures well_formed { AreWellFormed units.new }
{
    if unit >= units.len() {
        return drive;
    }
    let old = std::mem::replace(&mut units[unit], unit_from(drive));
    drive_of(old)
}

// Sets the mode of one of the units.
fn restore_at<S: BlockStore>(units: &mut [Option<DriveUnit<S>>], unit: usize, mode: Mode)
    requires well_formed { AreWellFormed units.old }
    ensures mode { units.new
        ≡ set units.old unit (in_mode mode (unwrap_or (slice_get units.old unit) None)) }
    ensures well_formed { AreWellFormed units.new }
{
    if unit < units.len() {
        restore_unit(&mut units[unit], mode);
    }
}

fn restore_unit<S: BlockStore>(unit: &mut Option<DriveUnit<S>>, mode: Mode)
    ensures unit { unit.new ≡ in_mode mode unit.old }
    ensures image { IsWellFormed unit.old → IsWellFormed unit.new }
{
    if let Some(unit) = unit {
        unit.restore(mode);
    }
}

// Sets the mode of each unit that was saved with a drive.
fn restore_all<S: BlockStore>(units: &mut [Option<DriveUnit<S>>], infos: [Option<UnitInfo>; 4])
    requires four_units { length units.old ≡ 4 }
    requires well_formed { AreWellFormed units.old }
    ensures units { units.new ≡ units_restored infos units.old }
    ensures well_formed { AreWellFormed units.new }
{
    let [a, b, c, d] = infos;
    restore_info(&mut units[0], a);
    restore_info(&mut units[1], b);
    restore_info(&mut units[2], c);
    restore_info(&mut units[3], d);
}

// Sets the mode of a unit, if it was saved with a drive.
fn restore_info<S: BlockStore>(unit: &mut Option<DriveUnit<S>>, info: Option<UnitInfo>)
    ensures unit { unit.new ≡ unit_restored info unit.old }
{
    if let Some(info) = info {
        restore_unit(unit, info.mode);
    }
}

fn reset_unit<S: BlockStore>(unit: &mut Option<DriveUnit<S>>)
    ensures { unit.new ≡ reset_unit unit.old }
{
    if let Some(unit) = unit {
        unit.reset();
    }
}

fn reset<S: BlockStore>(units: &mut [Option<DriveUnit<S>>])
    ensures { units.new ≡ map reset_unit units.old }
{
    for unit in units.iter_mut() {
        reset_unit(unit);
    }
}

// Removes and returns the command at an index. The later ones move down by a copy, which costs less than
// `ArrayVec::remove`.
fn remove_pending(pending: &mut ArrayVec<Command, PENDING>, place: usize) -> Command
    requires there { place < length pending.old.items }
    ensures value { slice_get pending.old.items place ≡ Some result }
    ensures left { pending.new.items ≡ remove pending.old.items place }
    ensures fewer { length pending.new.items + 1 ≡ length pending.old.items }
{
    let command = pending[place];
    pending.as_mut_slice().copy_within(place + 1.., place);
    pending.pop();
    command
}

// Returns whether a command is Set Controller Characteristics, which concerns no unit.
fn is_controller(op: Op) -> bool
    ensures { result ≡ is_controller op }
{
    matches!(op, Op::Controller)
}

// Executes one command on its unit. If the unit doesn't exist or has no drive, returns the end message of a
// rejected command.
pub(crate) fn execute<S: BlockStore>(
    units: &mut [Option<DriveUnit<S>>],
    command: Command,
    memory: &mut [u8],
) -> End
    requires memory { IsMemory memory.old }
    ensures executes { Executes command units.old memory.old result units.new memory.new }
    ensures well_formed { AreWellFormed units.old → AreWellFormed units.new }
{
    if is_controller(command.op) {
        return reply(command, status::SUCCESS, plain_body(command.op, 0));
    }
    let unit = usize::from(command.unit);
    if unit >= units.len() {
        return refuse(command, Refusal::UnitUnknown);
    }
    match &mut units[unit] {
        None => refuse(command, Refusal::NoVolume),
        Some(unit) => unit.execute(command, memory),
    }
}
