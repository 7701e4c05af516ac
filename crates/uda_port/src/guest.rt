//! State that only a compatible port has: drive types, controller flags and due attention messages.
//!
//! MSCP Basic Disk Functions Manual: controller flags, unit identifiers.
ghost use Rattle.std.specs.Prelude.{◌≡◌, is_some, length, slice_get, option_map};
ghost use Rattle.uda_port.specs.Guest.{GUEST_AT_FIRST, guest_restarted, unit_reported, asks_attention};
ghost use Rattle.uda_port.specs.Guest.{attention_set, is_due, first_due, guest_after, is_online_now};

use uda_exec::UnitInfo;
use uda_packet::{DriveType, EndBody, Reply, ReplyBody, UnitReport, status};

/// What a compatible port reports in addition to the state of its units. A strict port reports none of it.
///
/// MSCP Basic Disk Functions Manual: controller flags, unit identifiers.
#[derive(Clone, Copy, Debug, PartialEq, Eq)]
pub struct Guest {
    /// The type of each unit, with or without a volume.
    pub types: [DriveType; 4],
    /// The controller flags that the host set last since initialization, at first 0.
    pub flags: u16,
    /// For each unit, whether an attention message is due.
    pub attentions: [bool; 4],
}

impl Guest {
    /// Returns the state of a new port: every unit is an RA81, no flag is set, and no attention message is
    /// due.
    pub(crate) fn new() -> Guest
        ensures { result ≡ GUEST_AT_FIRST }
    {
        Guest {
            types: [DriveType::Ra81; 4],
            flags: 0,
            attentions: [false; 4],
        }
    }

    /// Returns the state after a write to IP: only the drive types stay.
    pub(crate) fn restarted(self) -> Guest
        ensures { result ≡ guest_restarted self }
    {
        Guest {
            flags: 0,
            attentions: [false; 4],
            ..self
        }
    }

    /// Returns whether the host asks for a message when a unit becomes available: bit 7 of the controller
    /// flags.
    pub(crate) fn asks_attention(&self) -> bool
        ensures { result ≡ asks_attention self.now.flags }
    {
        self.flags >> 7 & 1 != 0
    }

    /// Makes an attention message for a drive due, or not due. Changes nothing if `drive` is above 3.
    pub(crate) fn set_attention(&mut self, drive: usize, due: bool)
        ensures { self.new ≡ attention_set self.old drive due }
    {
        if drive < 4 {
            self.attentions[drive] = due;
        }
    }

    /// Drops the attention message of a unit that this end message reports as online.
    pub(crate) fn note_end(&mut self, end: &Reply)
        ensures { self.new ≡ guest_after end.now self.old }
    {
        if is_online_now(end) {
            self.set_attention(usize::from(end.unit), false);
        }
    }

    /// Returns whether an attention message is due for any drive.
    #[inline(always)]
    pub(crate) fn is_any_due(&self) -> bool
        ensures due { result ≡ is_some (first_due self.now.attentions) }
        ensures types { length self.now.types ≡ 4 }
    {
        let _ = self.types.len();
        self.first_due().is_some()
    }

    /// Returns the first drive for which an attention message is due, or None.
    #[inline(always)]
    pub(crate) fn first_due(&self) -> Option<u16>
        ensures { result ≡ first_due self.now.attentions }
    {
        if self.is_due(0) {
            Some(0)
        } else if self.is_due(1) {
            Some(1)
        } else if self.is_due(2) {
            Some(2)
        } else if self.is_due(3) {
            Some(3)
        } else {
            None
        }
    }

    // Returns whether an attention message is due for a drive.
    #[inline(always)]
    pub(crate) fn is_due(&self, drive: usize) -> bool
        ensures { result ≡ is_due self.now.attentions drive }
    {
        self.attentions.get(drive).copied().unwrap_or(false)
    }

    /// Returns the report of a unit with this mode and size, or None if there is no such unit.
    pub(crate) fn unit(&self, unit: usize, look: UnitInfo) -> Option<UnitReport>
        ensures { result ≡ option_map (λ kind. unit_reported kind look) (slice_get self.now.types unit) }
    {
        Some(UnitReport {
            kind: *self.types.get(unit)?,
            hard: look.mode.hard,
            soft: look.mode.soft,
            size: look.size,
        })
    }
}

// Returns whether the end message reports that an Online brought its unit online, or found it online.
fn is_online_now(end: &Reply) -> bool
    ensures { result ≡ is_online_now end.now }
{
    let ReplyBody::Basic(body) = end.body else {
        return false;
    };
    match body {
        EndBody::Online { .. } => {
            end.status == status::SUCCESS || end.status == status::ALREADY_ONLINE
        }
        EndBody::Invalid
        | EndBody::Status { .. }
        | EndBody::Controller
        | EndBody::Available
        | EndBody::Moved { .. } => false,
    }
}
