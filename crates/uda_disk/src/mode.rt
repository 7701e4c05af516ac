//! The mode of a unit, which requests read and set.
//!
//! MSCP Basic Disk Functions Manual: unit states, write protection.

use crate::flags::UnitFlags;
use bitflags::Flags;

/// Whether a unit with a drive is online, and which of its write protections are on.
///
/// MSCP Basic Disk Functions Manual: unit states, write protection.
#[derive(Clone, Copy, Debug, PartialEq, Eq)]
pub struct Mode {
    /// Whether the unit is online; otherwise it is available.
    pub online: bool,
    /// The hardware write protection: the drive's own switch, which no request changes.
    pub hard: bool,
    /// The software write protection, which the unit's last Online set and an Available clears.
    pub soft: bool,
}

impl Mode {
    ghost use Rattle.std.specs.Prelude.{◌≡◌};
    ghost use Rattle.uda_disk.specs.Disk.{flags_of};
    ghost use Rattle.uda_disk.specs.Request.{Available as AvailableAct, Online as OnlineAct};
    ghost use Rattle.uda_disk.specs.RequestEffect.{mode_after};

    /// Returns the unit flags: 0x1000 for software protection, and 0x2000 for hardware protection.
    ///
    /// MSCP Basic Disk Functions Manual: unit flags.
    pub fn flags(self) -> u16
        ensures flags { result ≡ flags_of self }
    {
        let mut flags = UnitFlags::empty();
        if self.soft {
            flags.insert(UnitFlags::SOFT);
        }
        if self.hard {
            flags.insert(UnitFlags::HARD);
        }
        flags.bits()
    }

    /// Returns the mode after an Available: available, without software protection. Initialization has the
    /// same effect.
    ///
    /// MSCP Basic Disk Functions Manual: Available command.
    pub fn available(self) -> Mode
        ensures mode { result ≡ mode_after AvailableAct self }
    {
        Mode {
            online: false,
            soft: false,
            ..self
        }
    }

    /// Returns the mode after an Online. A unit that is online keeps its mode. Any other is then online,
    /// and `protect` is its software protection.
    ///
    /// MSCP Basic Disk Functions Manual: Online command.
    pub fn online(self, protect: bool) -> Mode
        ensures mode { result ≡ mode_after (OnlineAct protect) self }
    {
        if self.online {
            return self;
        }
        Mode {
            online: true,
            soft: protect,
            ..self
        }
    }
}
