//! The status words of end messages: the major status in bits 4-0, the subcode above.
//!
//! MSCP Basic Disk Functions Manual: status and event codes.

ghost use Rattle.std.specs.Prelude.{◌≡◌};
ghost use Rattle.uda_disk.specs.Status.{status_name};

/// The command succeeded.
pub const SUCCESS: u16 = 0x0000;

/// The unit of an Online was already online.
pub const ALREADY_ONLINE: u16 = 0x0100;

/// An Abort removed the command before it was executed.
pub const ABORTED: u16 = 0x0002;

/// The length of the packet is not valid for a command.
pub const INVALID_LENGTH: u16 = 0x0001;

/// No command has this opcode.
pub const INVALID_OPCODE: u16 = 0x0801;

/// The command has a modifier bit that is not defined for it.
pub const INVALID_MODIFIERS: u16 = 0x0A01;

/// The host asks for another version of MSCP. The field has the offset of a transfer's byte count.
pub const INVALID_VERSION: u16 = 0x0C01;

/// There is no unit of this number.
pub const UNIT_UNKNOWN: u16 = 0x0003;

/// The unit has no drive.
pub const NO_VOLUME: u16 = 0x0023;

/// The unit is available and not online.
pub const AVAILABLE: u16 = 0x0004;

/// The host's buffer differs from the unit's blocks.
pub const COMPARE_ERROR: u16 = 0x0007;

/// The host buffer's address is odd.
pub const ODD_ADDRESS: u16 = 0x0029;

/// The byte count is odd.
pub const ODD_COUNT: u16 = 0x0049;

/// The range ends past the unit's end.
pub const INVALID_COUNT: u16 = 0x0C01;

/// The first block isn't on the unit.
pub const INVALID_BLOCK: u16 = 0x1C01;

/// The unit's hardware write protection is on.
pub const HARDWARE_PROTECTED: u16 = 0x2006;

/// The unit's software write protection is on.
pub const SOFTWARE_PROTECTED: u16 = 0x1006;

/// The host buffer doesn't lie wholly in memory.
pub const NO_SUCH_MEMORY: u16 = 0x0069;

/// The store failed.
pub const DRIVE_ERROR: u16 = 0x000B;

/// Returns the name of a status word, or `unknown status` if this module doesn't define it. An invalid byte
/// count and an invalid version have the same status word, since both fields have the same offset.
#[tactic(auto, unfolding(crate::specs::Status::status_name))]
pub fn name(status: u16) -> &'static str
    ensures name { result.now ≡ status_name status }
{
    match status {
        SUCCESS => "success",
        ALREADY_ONLINE => "already online",
        ABORTED => "aborted",
        INVALID_LENGTH => "invalid length",
        INVALID_OPCODE => "invalid opcode",
        INVALID_MODIFIERS => "invalid modifiers",
        INVALID_COUNT => "invalid byte count or version",
        INVALID_BLOCK => "invalid block number",
        UNIT_UNKNOWN => "unit unknown",
        NO_VOLUME => "no volume",
        AVAILABLE => "available",
        HARDWARE_PROTECTED => "hardware write protected",
        SOFTWARE_PROTECTED => "software write protected",
        COMPARE_ERROR => "compare error",
        ODD_ADDRESS => "odd buffer address",
        ODD_COUNT => "odd byte count",
        NO_SUCH_MEMORY => "no such memory",
        DRIVE_ERROR => "drive error",
        _ => "unknown status",
    }
}
