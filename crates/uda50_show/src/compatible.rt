//! The messages that only the compatible profile has.
ghost use Rattle.std.specs.Prelude.{◌≡◌, ◌<◌};
ghost use Rattle.uda_packet.specs.Field.{number_in, code_field};
ghost use Rattle.uda50_show.specs.Compatible.{compatible_message, compatible_command, unit_available_fields, additional};
ghost use Rattle.uda50_show.specs.Compatible.{as_end};

use crate::fields::{code, modifiers};
use crate::packet::{Packet, protection_name, size_end};
use byteorder::{ByteOrder, LittleEndian};
use std::fmt;
use uda_packet::{Reply, ReplyBody, decode_reply, status};

/// The number of bytes of which no text of a [`CompatibleMessage`] has more.
pub const COMPATIBLE_TEXT: usize = 512;

// The code of the attention message that a unit has become available.
const UNIT_AVAILABLE_CODE: u8 = 0x40;

// The bit of an end code.
const END: u8 = 0x80;

/// A message that only the compatible profile has. Its text has a line for each field, as that of a
/// [`Packet`], and the status with which a controller of the strict profile rejects it.
#[derive(Clone, Copy, Debug, PartialEq, Eq)]
pub enum CompatibleMessage {
    /// A command.
    Command(CompatibleCommand),
    /// An end message.
    End(Reply),
    /// The attention message that a unit has become available.
    UnitAvailable(UnitAvailable),
}

/// A command that only the compatible profile has.
#[derive(Clone, Copy, Debug, PartialEq, Eq)]
pub struct CompatibleCommand {
    /// The end message that the bytes are if the opcode is an end code. Its numbers are parameters.
    pub form: Reply,
    /// The modifiers.
    pub modifiers: u16,
    /// The address of the buffer of a Compare Host Data.
    pub buffer: u32,
    /// The first block of a Compare Host Data.
    pub lbn: u32,
    /// The unit flags of a Set Unit Characteristics.
    pub flags: u16,
}

/// The fields of the attention message that a unit has become available.
#[derive(Clone, Copy, Debug, PartialEq, Eq)]
pub struct UnitAvailable {
    /// The number of the unit.
    pub unit: u16,
    /// The unit flags.
    pub flags: u16,
    /// The low and the high half of the unit's identifier.
    pub identifier: [u32; 2],
    /// The identifier of the medium.
    pub media: u32,
}

impl CompatibleMessage {
    /// Reads a packet. Returns `None` if the strict profile has such a message too, or no profile has it.
    pub fn read(packet: &Packet) -> Option<CompatibleMessage>
        ensures message { result ≡ compatible_message packet.now.0 }
    {
        let text = &packet.0;
        let code = code(text);
        if code >= END {
            return Some(CompatibleMessage::End(additional(text)?));
        }
        if code == UNIT_AVAILABLE_CODE {
            return Some(CompatibleMessage::UnitAvailable(unit_available_fields(text)));
        }
        let form = additional(&as_end(text))?;
        Some(CompatibleMessage::Command(compatible_command(text, form)))
    }
}

// Returns the end message in a text, if only the compatible profile has it.
fn additional(text: &[u8; 48]) -> Option<Reply>
    ensures { result ≡ additional text.now }
{
    match decode_reply(text) {
        Some(
            Reply {
                body: ReplyBody::Basic(_),
                ..
            },
        ) => None,
        reply => reply,
    }
}

// Returns a text with its opcode as an end code.
fn as_end(text: &[u8; 48]) -> [u8; 48]
    requires { number_in code_field text.now < 128 }
    ensures { result ≡ as_end text.now }
{
    let mut end = *text;
    end[8] = text[8] + END;
    end
}

// Returns the command in a text with this form.
fn compatible_command(text: &[u8; 48], form: Reply) -> CompatibleCommand
    ensures { result ≡ compatible_command text.now form }
{
    CompatibleCommand {
        form,
        modifiers: modifiers(text),
        buffer: LittleEndian::read_u32(&text[16..]),
        lbn: LittleEndian::read_u32(&text[28..]),
        flags: LittleEndian::read_u16(&text[14..]),
    }
}

// Returns the fields of an attention message.
fn unit_available_fields(text: &[u8; 48]) -> UnitAvailable
    ensures { result ≡ unit_available_fields text.now }
{
    UnitAvailable {
        unit: LittleEndian::read_u16(&text[4..]),
        flags: LittleEndian::read_u16(&text[14..]),
        identifier: [
            LittleEndian::read_u32(&text[20..]),
            LittleEndian::read_u32(&text[24..]),
        ],
        media: LittleEndian::read_u32(&text[28..]),
    }
}

impl fmt::Display for CompatibleMessage {
    fn fmt<W: fmt::Write>(&self, f: &mut fmt::Formatter<W>) -> fmt::Result {
        match self {
            CompatibleMessage::Command(command) => write_compatible_command(f, command)?,
            CompatibleMessage::End(reply) => write_end(f, reply)?,
            CompatibleMessage::UnitAvailable(unit) => write_unit_available(f, unit)?,
        }
        let rejected = status::INVALID_OPCODE;
        let name = status::name(rejected);
        writeln!(f, "  rejected    status 0x{rejected:04x} ({name})")
    }
}

// Writes the lines of a command.
fn write_compatible_command<W: fmt::Write>(
    f: &mut fmt::Formatter<W>,
    command: &CompatibleCommand,
) -> fmt::Result {
    let Reply {
        reference,
        unit,
        body,
        ..
    } = command.form;
    writeln!(f, "command of the compatible profile: {}", body.name())?;
    write_request(f, reference, unit)?;
    writeln!(f, "  opcode      0x{:02x}", body.code() & 0x7f)?;
    writeln!(f, "  modifiers   0x{:04x}", command.modifiers)?;
    match body {
        ReplyBody::Abort { named } | ReplyBody::CommandStatus { named, .. } => {
            writeln!(f, "  concerns    {named}")
        }
        ReplyBody::SetUnit { .. } => write_flags(f, command.flags),
        ReplyBody::Compare { bytes } => {
            writeln!(f, "  byte count  {bytes}")?;
            writeln!(f, "  buffer      0x{:08x}", command.buffer)?;
            writeln!(f, "  lbn         {}", command.lbn)
        }
        _ => Ok(()),
    }
}

// Writes the lines of an end message.
fn write_end<W: fmt::Write>(f: &mut fmt::Formatter<W>, end: &Reply) -> fmt::Result {
    let body = end.body;
    let name = status::name(end.status);
    writeln!(f, "end message of the compatible profile: {}", body.name())?;
    write_request(f, end.reference, end.unit)?;
    writeln!(f, "  end code    0x{:02x}", body.code())?;
    writeln!(f, "  status      0x{:04x} ({name})", end.status)?;
    match body {
        ReplyBody::Abort { named } => writeln!(f, "  concerns    {named}"),
        ReplyBody::CommandStatus { named, progress } => {
            writeln!(f, "  concerns    {named}")?;
            writeln!(f, "  progress    {progress}")
        }
        ReplyBody::SetUnit { flags, size } => {
            write_flags(f, flags)?;
            write!(f, "  unit size   {size}{}", size_end(size))
        }
        ReplyBody::Compare { bytes } => writeln!(f, "  byte count  {bytes}"),
        _ => Ok(()),
    }
}

// Writes the lines of an attention message.
fn write_unit_available<W: fmt::Write>(
    f: &mut fmt::Formatter<W>,
    available: &UnitAvailable,
) -> fmt::Result {
    writeln!(f, "attention message: Unit Available")?;
    writeln!(f, "  unit        {}", available.unit)?;
    writeln!(f, "  code        0x{UNIT_AVAILABLE_CODE:02x}")?;
    write_flags(f, available.flags)?;
    let [low, high] = available.identifier;
    writeln!(f, "  identifier  0x{high:08x}{low:08x}")?;
    writeln!(f, "  media type  0x{:08x}", available.media)
}

// Writes the lines of the reference and the unit.
fn write_request<W: fmt::Write>(
    f: &mut fmt::Formatter<W>,
    reference: u32,
    unit: u16,
) -> fmt::Result {
    writeln!(f, "  reference   {reference}")?;
    writeln!(f, "  unit        {unit}")
}

// Writes the line of unit flags.
fn write_flags<W: fmt::Write>(f: &mut fmt::Formatter<W>, flags: u16) -> fmt::Result {
    let protection = protection_name(flags);
    writeln!(f, "  unit flags  0x{flags:04x}{protection}")
}
