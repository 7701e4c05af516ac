//! Exchange of drives while the host runs.
//!
//! MSCP Basic Disk Functions Manual: unit states.
ghost use Rattle.std.specs.Prelude.{◌≡◌, ◌↔◌, ◌<◌, if◌then◌else◌, IsTrue, None, length, slice_get, option_map, is_some};
ghost use Rattle.uda_disk.specs.Units.{AreWellFormed};
ghost use Rattle.uda_exec.specs.Drives.{drive_state, returned_drive, info_at, with_drive, with_mode};
ghost use Rattle.uda_port.specs.Port.{CreditsAgree, attention_due, drive_put, protected_drive, port_with_drive};
ghost use Rattle.uda_port.specs.Guest.{attention_set};
ghost use Rattle.uda_port.specs.Port.{read_only_at, with_type};

use crate::phase::Phase;
use crate::port::Port;
use crate::profile::Profile;
use uda_disk::Mode;
use uda_image::{BlockStore, Drive};
use uda_packet::DriveType;

impl<S: BlockStore> Port<S> {
    /// Replaces the drive of a unit, or removes it (None), and returns the old drive. The old drive has its
    /// blocks as the commands left them, and its hardware write protection.
    ///
    /// The unit is then available, without software write protection. The other units, the rings, the pending
    /// commands and the queued end messages don't change. A pending command for this unit uses the drive that
    /// is present when the command executes. The call is allowed between any two turns, in every phase. If
    /// `unit` is above 3, nothing changes and the call returns the given drive.
    ///
    /// In the compatible profile, the new drive becomes write-protected if the unit's type is read-only. If
    /// the port runs and the controller flags ask for it, an attention message becomes due for the new drive.
    /// No attention message is due for a unit that lost its drive.
    ///
    /// MSCP Basic Disk Functions Manual: unit states.
    pub fn set_drive(&mut self, unit: usize, drive: Option<Drive<S>>) -> Option<Drive<S>>
        ensures returned_drive { option_map (drive_state S.state) result
            ≡ returned_drive self.old.exec.units unit
            (drive_put self.old unit (option_map (drive_state S.state) drive)) }
        ensures set { self.new ≡ port_with_drive self.old unit (option_map (drive_state S.state) drive) }
        ensures credits { CreditsAgree self.new }
        ensures four_units { length self.new.exec.units ≡ 4 }
        ensures well_formed { AreWellFormed self.new.exec.units }
    {
        let due = self.attention_due(drive.is_some());
        let read_only = self.is_read_only(unit);
        let old = self.exec.set_drive(unit, protected(drive, read_only));
        self.guest.set_attention(unit, due);
        self.keep();
        old
    }

    /// Replaces the drive of a unit as [`set_drive`](Port::set_drive) does, but never makes an attention
    /// message due and ignores the unit's type. It is for callers that remove a drive, change its store and
    /// put it back, unseen by the host.
    ///
    /// MSCP Basic Disk Functions Manual: unit states.
    pub fn exchange_drive(&mut self, unit: usize, drive: Option<Drive<S>>) -> Option<Drive<S>>
        ensures returned_drive { option_map (drive_state S.state) result
            ≡ returned_drive self.old.exec.units unit (option_map (drive_state S.state) drive) }
        ensures set { self.new ≡ record self.old {
          exec = with_drive self.old.exec unit (option_map (drive_state S.state) drive);
        } }
        ensures credits { CreditsAgree self.new }
        ensures four_units { length self.new.exec.units ≡ 4 }
        ensures well_formed { AreWellFormed self.new.exec.units }
    {
        let old = self.exec.set_drive(unit, drive);
        self.keep();
        old
    }

    /// Sets the type of a unit that has no drive, and returns true. Returns false and changes nothing if the
    /// unit has a drive or doesn't exist.
    ///
    /// The type decides what the host reads about the unit, with and without a drive. It affects no block.
    ///
    /// MSCP Basic Disk Functions Manual: media type identifiers, unit identifiers.
    pub fn set_type(&mut self, unit: usize, kind: DriveType) -> bool
        ensures free { IsTrue result ↔ ((unit < 4) × (info_at (slice_get self.old.exec.units unit) ≡ None)) }
        ensures kind { self.new ≡ (if result then with_type self.old unit kind else self.old) }
    {
        if unit >= 4 || self.exec.unit(unit).is_some() {
            return false;
        }
        self.guest.types[unit] = kind;
        true
    }

    /// Returns the type of a unit, or None if there is no such unit.
    pub fn drive_type(&self, unit: usize) -> Option<DriveType>
        ensures kind { result ≡ slice_get self.now.guest.types unit }
    {
        self.guest.types.get(unit).copied()
    }

    // Returns whether the unit's type is read-only in this profile.
    fn is_read_only(&self, unit: usize) -> bool
        ensures { result ≡ read_only_at self.now unit }
    {
        match (self.profile, self.drive_type(unit)) {
            (Profile::Compatible(_), Some(kind)) => kind.traits().is_read_only,
            _ => false,
        }
    }

    /// Sets the mode of a unit, and changes nothing else of the port. It is for callers that removed a drive
    /// with [`exchange_drive`](Port::exchange_drive), changed its store, put it back, and want the unit in
    /// its former state. If the unit has no drive, or `unit` is above 3, nothing changes.
    ///
    /// MSCP Basic Disk Functions Manual: unit states.
    pub fn restore_mode(&mut self, unit: usize, mode: Mode)
        ensures mode { self.new ≡ record self.old { exec = with_mode self.old.exec unit mode } }
        ensures credits { CreditsAgree self.new }
        ensures four_units { length self.new.exec.units ≡ 4 }
        ensures well_formed { AreWellFormed self.new.exec.units }
    {
        self.exec.restore_mode(unit, mode);
        self.keep();
    }

    // Returns whether a drive that is attached now makes an attention message due.
    fn attention_due(&self, is_there: bool) -> bool
        ensures due { result ≡ attention_due self.now is_there }
    {
        match (self.profile, self.phase) {
            (Profile::Compatible(_), Phase::Running) => is_there && self.guest.asks_attention(),
            _ => false,
        }
    }
}

// Returns the drive, write-protected if its unit's type is read-only.
fn protected<S: BlockStore>(drive: Option<Drive<S>>, read_only: bool) -> Option<Drive<S>>
    ensures { option_map (drive_state S.state) result
        ≡ protected_drive read_only (option_map (drive_state S.state) drive) }
{
    match drive {
        None => None,
        Some(Drive { store, hard }) => Some(Drive {
            store,
            hard: read_only || hard,
        }),
    }
}
