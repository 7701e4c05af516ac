//! The reasons why a request is rejected.
//!
//! MSCP Basic Disk Functions Manual: transfer commands, status and event codes.
ghost use Rattle.std.specs.Prelude.{◌≡◌};
ghost use Rattle.uda_disk.specs.RequestEffect.{refusal_status};

use crate::status;

/// The reason why a request is rejected. A rejected request changes nothing. `OddAddress` and
/// `NoSuchMemory` concern the host's buffer, so they never arise from a request itself.
///
/// MSCP Basic Disk Functions Manual: status and event codes.
#[derive(Clone, Copy, Debug, PartialEq, Eq)]
pub enum Refusal {
    /// There is no unit of this number.
    UnitUnknown,
    /// The unit has no drive.
    NoVolume,
    /// The unit of a transfer is available and not online.
    NotOnline,
    /// The host buffer begins at an odd address.
    OddAddress,
    /// The byte count is odd.
    OddCount,
    /// The first block isn't less than the unit's size.
    BlockPastEnd,
    /// The range ends past the unit's last block.
    RangePastEnd,
    /// A Write or an Erase on a unit with hardware write protection.
    HardwareProtected,
    /// A Write or an Erase on a unit with software write protection.
    SoftwareProtected,
    /// The host buffer doesn't lie wholly in memory.
    NoSuchMemory,
}

impl Refusal {
    /// Returns the status word that reports it.
    pub fn status(self) -> u16
        ensures status { result ≡ refusal_status self }
    {
        match self {
            Refusal::UnitUnknown => status::UNIT_UNKNOWN,
            Refusal::NoVolume => status::NO_VOLUME,
            Refusal::NotOnline => status::AVAILABLE,
            Refusal::OddAddress => status::ODD_ADDRESS,
            Refusal::OddCount => status::ODD_COUNT,
            Refusal::BlockPastEnd => status::INVALID_BLOCK,
            Refusal::RangePastEnd => status::INVALID_COUNT,
            Refusal::HardwareProtected => status::HARDWARE_PROTECTED,
            Refusal::SoftwareProtected => status::SOFTWARE_PROTECTED,
            Refusal::NoSuchMemory => status::NO_SUCH_MEMORY,
        }
    }
}
