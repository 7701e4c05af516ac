//! End messages.

ghost use Rattle.std.specs.Prelude.{◌≡◌, ◌<◌, ◌≤◌, Some};
ghost use Rattle.uda_packet.specs.Bad.{invalid_length_end};
ghost use Rattle.uda_packet.specs.Commands.{BodyFits, answer_entries, unit_entries, kind_display};
ghost use Rattle.uda_packet.specs.Commands.{strict_controller_entries, tells_status, tells_online};
ghost use Rattle.uda_packet.specs.Commands.{transfer_opcode};
ghost use Rattle.uda_packet.specs.Field.{with_entries};
ghost use Rattle.uda_packet.specs.Opcode.{end_code, end_length, answered_opcode, body_named};
ghost use Rattle.uda_packet.specs.Display.{end_display, body_display, body_name};

use crate::field::{
    BYTE_COUNT, IDENTIFIER, MEDIA_TYPE, REFERENCE, Text, UNIT, UNIT_FLAGS, UNIT_SIZE,
};
use crate::status;
use crate::status::{ALREADY_ONLINE, AVAILABLE, SUCCESS};
use std::fmt;

// The bit of an end code. The other bits are the opcode of the command.
pub(crate) const END_CODE: u8 = 0x80;

// The class of a disk unit, in the highest byte of its identifier.
const DISK: u64 = 2 << 56;

// The controller's identifier: its number 1, its model 6 and its class 1, a mass storage controller.
const CONTROLLER: u64 = 0x0106_0000_0000_0001;

// The media type of every drive, that of an RA81: the device `DU`, the medium `RA` and its number 81, in
// five letters of five bits and a number of seven.
const MEDIA: u32 = 0x2564_1051;

/// An end message: the result of a command.
///
/// The default value is no message of a controller. It fills unused elements of an array or a queue of end
/// messages.
///
/// MSCP Basic Disk Functions Manual: end messages.
#[derive(Clone, Copy, PartialEq, Eq, Debug, Default)]
pub struct End {
    /// The reference number of the command.
    pub reference: u32,
    /// The unit number of the command.
    pub unit: u16,
    /// The status word: the major status in bits 4-0, the subcode above.
    pub status: u16,
    /// The command that ended, with its results.
    pub body: EndBody,
}

impl End {
    /// Returns the end message for a packet whose length is not that of a command: invalid command, status
    /// 0x0001. Its reference and unit are those in bytes 0 to 5 of the text.
    ///
    /// MSCP Basic Disk Functions Manual: invalid command end message.
    pub fn for_invalid_length(text: &[u8; 48]) -> End
        ensures end { result ≡ invalid_length_end text.now }
    {
        End {
            reference: REFERENCE.get(text),
            unit: UNIT.get(text),
            status: status::INVALID_LENGTH,
            body: EndBody::Invalid,
        }
    }
}

/// Writes a line such as `reference 3, unit 0, status 0x0000 (success): Read, 512 bytes`.
impl fmt::Display for End {
    ghost output = { λ end. Some (end_display end) };

    fn fmt<W: fmt::Write>(&self, f: &mut fmt::Formatter<W>) -> fmt::Result {
        let End {
            reference,
            unit,
            status,
            body,
        } = *self;
        let name = status::name(status);
        write!(
            f,
            "reference {reference}, unit {unit}, status 0x{status:04x} ({name}): {body}"
        )
    }
}

/// The command that an end message ends, with its results.
///
/// MSCP Basic Disk Functions Manual: end messages.
#[derive(Clone, Copy, PartialEq, Eq, Debug, Default)]
pub enum EndBody {
    /// An invalid command.
    #[default]
    Invalid,
    /// Get Unit Status.
    Status {
        /// The unit flags: `UnitFlags` as a word.
        flags: u16,
    },
    /// Set Controller Characteristics.
    Controller,
    /// Available.
    Available,
    /// Online.
    Online {
        /// The unit flags: `UnitFlags` as a word.
        flags: u16,
        /// The unit's size in blocks.
        size: u32,
    },
    /// Access, Erase, Read or Write.
    Moved {
        /// The kind of transfer.
        kind: Kind,
        /// The number of bytes of the blocks that were read, written, accessed or erased; 0 for a rejected
        /// command.
        bytes: u32,
    },
}

impl EndBody {
    /// Returns the end code: the opcode of the command with bit 7 set, or only that bit for an invalid
    /// command.
    ///
    /// MSCP Basic Disk Functions Manual: end codes.
    pub fn code(self) -> u8
        ensures code { result ≡ end_code self }
    {
        END_CODE + self.opcode()
    }

    /// Returns the length in bytes that the manual gives an end message with this body.
    ///
    /// MSCP Basic Disk Functions Manual: end messages.
    pub fn length(self) -> u16
        ensures length { result ≡ end_length self }
        ensures within { result ≤ 48 }
    {
        self.row().length
    }

    /// Returns the name of the command that the body belongs to, or `invalid command`.
    pub fn name(self) -> &'static str
        ensures name { result.now ≡ body_name self }
    {
        self.row().name
    }

    // Returns the opcode of the command that the body belongs to, or 0 for an invalid command.
    pub(crate) fn opcode(self) -> u8
        ensures value { result ≡ answered_opcode self }
        ensures below { result < 128 }
    {
        self.row().opcode
    }

    // Returns the constant facts of the body, without its numbers.
    pub(crate) fn row(self) -> BodyRow
        ensures opcode { result.opcode ≡ answered_opcode self }
        ensures below { result.opcode < 128 }
        ensures length { result.length ≡ end_length self }
        ensures within { result.length ≤ 48 }
        ensures name { result.name.now ≡ body_name self }
    {
        match self {
            EndBody::Invalid => BodyRow::new(0, 12, "invalid command"),
            EndBody::Status { .. } => BodyRow::new(3, 48, "Get Unit Status"),
            EndBody::Controller => BodyRow::new(4, 32, "Set Controller Characteristics"),
            EndBody::Available => BodyRow::new(8, 12, "Available"),
            EndBody::Online { .. } => BodyRow::new(9, 44, "Online"),
            EndBody::Moved { kind, .. } => BodyRow::new(kind.opcode(), 32, kind.name()),
        }
    }

    // Returns the body of an end code, with the numbers in the text.
    pub(crate) fn of_code(code: u8, text: &Text) -> Option<EndBody>
        ensures { result ≡ body_named code text.now }
    {
        let moved = |kind| EndBody::Moved {
            kind,
            bytes: BYTE_COUNT.get(text),
        };
        Some(match code {
            0x80 => EndBody::Invalid,
            0x83 => EndBody::Status {
                flags: UNIT_FLAGS.get(text),
            },
            0x84 => EndBody::Controller,
            0x88 => EndBody::Available,
            0x89 => EndBody::Online {
                flags: UNIT_FLAGS.get(text),
                size: UNIT_SIZE.get(text),
            },
            0x90 => moved(Kind::Access),
            0x92 => moved(Kind::Erase),
            0xa1 => moved(Kind::Read),
            0xa2 => moved(Kind::Write),
            _ => return None,
        })
    }

    // Writes the fields that follow the status of an end message.
    pub(crate) fn put(self, text: &mut Text, unit: u16, status: u16)
        ensures written { text.new ≡ with_entries (answer_entries unit status self) text.old }
        ensures fits { BodyFits self }
    {
        match self {
            EndBody::Invalid | EndBody::Available => {}
            EndBody::Status { flags } => {
                UNIT_FLAGS.put(text, flags);
                put_unit(text, unit, tells_status(status));
            }
            EndBody::Controller => put_controller(text, status == SUCCESS),
            EndBody::Online { flags, size } => {
                UNIT_FLAGS.put(text, flags);
                put_unit(text, unit, tells_online(status));
                UNIT_SIZE.put(text, size);
            }
            EndBody::Moved { bytes, .. } => BYTE_COUNT.put(text, bytes),
        }
    }
}

// The constant facts of the body of an end message.
#[derive(Clone, Copy)]
pub(crate) struct BodyRow {
    // The opcode of its command, or 0 for an invalid command.
    pub(crate) opcode: u8,
    // The length of its text in bytes.
    pub(crate) length: u16,
    // The name of the command.
    pub(crate) name: &'static str,
}

impl BodyRow {
    pub(crate) fn new(opcode: u8, length: u16, name: &'static str) -> BodyRow
        ensures opcode { result.opcode ≡ opcode }
        ensures length { result.length ≡ length }
        ensures name { result.name.now ≡ name.now }
    {
        BodyRow {
            opcode,
            length,
            name,
        }
    }
}

/// Writes a line such as `Read, 512 bytes`, or `Online, flags 0x1000, 891072 blocks`.
impl fmt::Display for EndBody {
    ghost output = { λ body. Some (body_display body) };

    fn fmt<W: fmt::Write>(&self, f: &mut fmt::Formatter<W>) -> fmt::Result {
        let name = self.name();
        match *self {
            EndBody::Status { flags } => write!(f, "{name}, flags 0x{flags:04x}"),
            EndBody::Online { flags, size } => {
                write!(f, "{name}, flags 0x{flags:04x}, {size} blocks")
            }
            EndBody::Moved { bytes, .. } => write!(f, "{name}, {bytes} bytes"),
            EndBody::Invalid | EndBody::Controller | EndBody::Available => f.write_str(name),
        }
    }
}

/// The kind of a transfer.
#[derive(Clone, Copy, PartialEq, Eq, Debug)]
pub enum Kind {
    /// Access.
    Access,
    /// Erase.
    Erase,
    /// Read.
    Read,
    /// Write.
    Write,
}

impl Kind {
    // Returns the opcode of such a transfer.
    fn opcode(self) -> u8
        ensures opcode { result ≡ transfer_opcode self }
        ensures below { result < 128 }
    {
        match self {
            Kind::Access => 16,
            Kind::Erase => 18,
            Kind::Read => 33,
            Kind::Write => 34,
        }
    }

    /// Returns the name of the transfer.
    pub fn name(self) -> &'static str
        ensures name { result.now ≡ kind_display self }
    {
        match self {
            Kind::Access => "Access",
            Kind::Erase => "Erase",
            Kind::Read => "Read",
            Kind::Write => "Write",
        }
    }
}

impl fmt::Display for Kind {
    ghost output = { λ kind. Some (kind_display kind) };

    fn fmt<W: fmt::Write>(&self, f: &mut fmt::Formatter<W>) -> fmt::Result {
        f.write_str(self.name())
    }
}

// Returns whether an end message of Get Unit Status has identifier and media type.
fn tells_status(status: u16) -> bool
    ensures { result ≡ tells_status status }
{
    status == SUCCESS || status == AVAILABLE
}

// Returns whether an end message of Online has identifier and media type.
fn tells_online(status: u16) -> bool
    ensures { result ≡ tells_online status }
{
    status == SUCCESS || status == ALREADY_ONLINE
}

// Writes identifier and media type of a unit, if the message has them.
fn put_unit(text: &mut Text, unit: u16, told: bool)
    ensures { text.new ≡ with_entries (unit_entries told unit) text.old }
{
    if told {
        IDENTIFIER.put(text, DISK + u64::from(unit));
        MEDIA_TYPE.put(text, MEDIA);
    }
}

// Writes the controller's identifier, if the message has it.
fn put_controller(text: &mut Text, told: bool)
    ensures { text.new ≡ with_entries (strict_controller_entries told) text.old }
{
    if told {
        IDENTIFIER.put(text, CONTROLLER);
    }
}
