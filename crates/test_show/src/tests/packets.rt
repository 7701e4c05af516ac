//! Packets, compared with packets that are formatted line by line.

use super::pieces::{compare, compare_in_each_room};
use rand_core::{Rng, SeedableRng};
use rand_pcg::Pcg32;
use std::fmt;
use std::process::Abort;
use std::test::Fail;
use uda_packet::{
    Bad, BadKind, Command, End, EndBody, Flags, Op, Transfer, UnitFlags, decode_command,
    decode_end, status,
};
use uda50_show::{PACKET_TEXT, Packet};

/// The slower form of a [`Packet`].
#[derive(Drop)]
struct FormattedPacket([u8; 48]);

impl fmt::Display for FormattedPacket {
    fn fmt<W: fmt::Write>(&self, f: &mut fmt::Formatter<W>) -> fmt::Result {
        if let Some(end) = decode_end(&self.0) {
            return write_end(f, &end);
        }
        let (code, modifiers) = (self.0[8], u16::from_le_bytes([self.0[10], self.0[11]]));
        match decode_command(&self.0) {
            Ok(command) => write_command_lines(f, &command, modifiers),
            Err(bad) => write_bad(f, &bad, code, modifiers),
        }
    }
}

// Writes a label and a number.
fn write_number<W: fmt::Write>(f: &mut fmt::Formatter<W>, label: &str, number: u32) -> fmt::Result {
    writeln!(f, "{label}{number}")
}

// Writes the lines that each message has.
fn write_head<W: fmt::Write>(f: &mut fmt::Formatter<W>, reference: u32, unit: u16) -> fmt::Result {
    write_number(f, "  reference   ", reference)?;
    write_number(f, "  unit        ", u32::from(unit))
}

// Writes the lines of an opcode and of modifiers.
fn write_codes<W: fmt::Write>(f: &mut fmt::Formatter<W>, code: u8, modifiers: u16) -> fmt::Result {
    writeln!(f, "  opcode      0x{code:02x}")?;
    writeln!(f, "  modifiers   0x{modifiers:04x}")
}

// Writes a label, and a status with its name.
fn write_status<W: fmt::Write>(f: &mut fmt::Formatter<W>, label: &str, status: u16) -> fmt::Result {
    let name = status::name(status);
    writeln!(f, "{label}{status:04x} ({name})")
}

// Writes the lines of an end message.
fn write_end<W: fmt::Write>(f: &mut fmt::Formatter<W>, end: &End) -> fmt::Result {
    let body = end.body;
    writeln!(f, "end message: {}", body.name())?;
    write_head(f, end.reference, end.unit)?;
    writeln!(f, "  end code    0x{:02x}", body.code())?;
    write_status(f, "  status      0x", end.status)?;
    write_end_body(f, body)
}

// Writes the lines of an end message's parameters.
fn write_end_body<W: fmt::Write>(f: &mut fmt::Formatter<W>, body: EndBody) -> fmt::Result {
    match body {
        EndBody::Status { flags } => write_flags(f, flags),
        EndBody::Online { flags, size } => {
            write_flags(f, flags)?;
            if size == 1 {
                return writeln!(f, "  unit size   {size} block");
            }
            writeln!(f, "  unit size   {size} blocks")
        }
        EndBody::Moved { bytes, .. } => write_number(f, "  byte count  ", bytes),
        EndBody::Invalid | EndBody::Controller | EndBody::Available => Ok(()),
    }
}

// Returns what the line of the unit flags says of write protection.
fn protection(flags: u16) -> &'static str {
    let bits = UnitFlags::from_bits_retain(flags);
    match (
        bits.contains(UnitFlags::SOFT),
        bits.contains(UnitFlags::HARD),
    ) {
        (false, false) => "",
        (true, false) => " (software write protection)",
        (false, true) => " (hardware write protection)",
        (true, true) => " (software and hardware write protection)",
    }
}

// Writes the line of the unit flags.
fn write_flags<W: fmt::Write>(f: &mut fmt::Formatter<W>, flags: u16) -> fmt::Result {
    let names = protection(flags);
    writeln!(f, "  unit flags  0x{flags:04x}{names}")
}

// Writes the lines of a command.
fn write_command_lines<W: fmt::Write>(
    f: &mut fmt::Formatter<W>,
    command: &Command,
    modifiers: u16,
) -> fmt::Result {
    let op = command.op;
    writeln!(f, "command: {}", op.name())?;
    write_head(f, command.reference, command.unit)?;
    write_codes(f, op.opcode(), modifiers)?;
    write_parameters(f, op)
}

// Writes the lines of a command's parameters.
fn write_parameters<W: fmt::Write>(f: &mut fmt::Formatter<W>, op: Op) -> fmt::Result {
    if let Op::Online { soft: Some(soft) } = op {
        let asked = asked(soft);
        return writeln!(f, "  protection  {asked} (Set Write Protect)");
    }
    match op.transfer() {
        Some(transfer) => write_transfer(f, &transfer),
        None => Ok(()),
    }
}

// Returns what the line of the software protection says.
fn asked(soft: bool) -> &'static str {
    if soft { "on" } else { "off" }
}

// Writes the lines of a transfer's parameters.
fn write_transfer<W: fmt::Write>(f: &mut fmt::Formatter<W>, transfer: &Transfer) -> fmt::Result {
    write_number(f, "  byte count  ", transfer.bytes)?;
    write_buffer(f, transfer)?;
    write_number(f, "  lbn         ", transfer.lbn)
}

// Writes the line of a transfer's buffer, if it has one.
fn write_buffer<W: fmt::Write>(f: &mut fmt::Formatter<W>, transfer: &Transfer) -> fmt::Result {
    if !transfer.kind.has_buffer() {
        return Ok(());
    }
    writeln!(f, "  buffer      0x{:08x}", transfer.buffer)
}

// Writes the lines of an invalid command.
fn write_bad<W: fmt::Write>(
    f: &mut fmt::Formatter<W>,
    bad: &Bad,
    code: u8,
    modifiers: u16,
) -> fmt::Result {
    write_bad_title(f, bad)?;
    write_head(f, bad.reference, bad.unit)?;
    write_codes(f, code, modifiers)?;
    write_status(f, "  rejected    status 0x", bad.end().status)
}

// Writes the first line of an invalid command.
fn write_bad_title<W: fmt::Write>(f: &mut fmt::Formatter<W>, bad: &Bad) -> fmt::Result {
    let kind = bad.kind;
    match kind {
        BadKind::Opcode => writeln!(f, "neither a command nor an end message: {kind}"),
        _ => writeln!(f, "invalid command, {}: {kind}", bad.body.name()),
    }
}

// Compares the pieces of a packet with the slower form, and with the text in one piece.
fn compare_packet(rt: &(impl Alloc + Abort), bytes: [u8; 48]) -> Result<(), Fail> {
    let packet = Packet(bytes);
    compare(rt, &packet, &FormattedPacket(bytes), PACKET_TEXT)?;
    let text = format!(in rt.alloc(); "{packet}")?;
    assert!(rt; packet.text().as_str() == text.as_str(), "{text}");
    Ok(())
}

// Returns random bytes with this byte in the place of the opcode or end code, this word in that of the
// status or the modifiers, and these unit flags. Without flags the bytes ask for version 0 of MSCP.
fn packet_of(rng: &mut Pcg32, code: u8, word: u16, flags: u8) -> [u8; 48] {
    let mut bytes = [0; 48];
    rng.fill_bytes(&mut bytes);
    bytes[8] = code;
    let [low, high] = word.to_le_bytes();
    bytes[10] = low;
    bytes[11] = high;
    bytes[15] = flags;
    if flags == 0 {
        bytes[12] = 0;
        bytes[13] = 0;
    }
    bytes
}

/// The status words that have a name, and others. As modifiers they are valid, or not.
static WORDS: [u16; 19] = [
    0, 1, 2, 3, 4, 7, 0xb, 0x23, 0x29, 0x49, 0x69, 0x100, 0x801, 0xa01, 0xc01, 0x1c01, 0x1006,
    0x2006, 0xffff,
];

/// Packets of random bytes with each opcode and end code, each of these words as status or modifiers, and
/// each pair of unit flags. One in four asks for version 0 of MSCP.
#[test]
fn packets_are_as_formatted(rt: HostRuntime) -> Result<(), Fail> {
    let mut rng = Pcg32::seed_from_u64(3);
    for code in 0..=255u8 {
        for &word in &WORDS {
            for flags in [0, 0x10, 0x20, 0x30] {
                compare_packet(&rt, packet_of(&mut rng, code, word, flags))?;
            }
        }
    }
    Ok(())
}

/// The codes of all commands and end messages, and one that is neither.
static CODES: [u8; 16] = [
    3, 4, 8, 9, 16, 18, 33, 34, 99, 0x80, 0x83, 0x84, 0x88, 0x89, 0x90, 0xa1,
];

/// Writers of each room hold of a packet what they hold of the slower form. Small numbers have zeros before
/// them.
#[test]
fn packets_end_in_each_room_as_formatted(rt: HostRuntime) -> Result<(), Fail> {
    let mut rng = Pcg32::seed_from_u64(5);
    for &code in &CODES {
        for (word, flags) in [(0, 0), (0, 0x10), (4, 0x30), (0x801, 0x10)] {
            let mut bytes = packet_of(&mut rng, code, word, flags);
            bytes[18] = 0;
            bytes[19] = 0;
            compare_in_each_room(&rt, &Packet(bytes), &FormattedPacket(bytes), PACKET_TEXT)?;
        }
    }
    Ok(())
}
