//! The text of a packet, field by field.
ghost use Rattle.std.specs.Prelude.{◌≡◌, ◌≤◌, ◌+◌, ◌++◌, Some, length};
ghost use Rattle.std.specs.Fmt.{WritesOnOk};
ghost use Rattle.arrayvec.specs.ArrayVec.{array_vec_len};
ghost use Rattle.arrayvec.specs.ArrayString.{array_string_len};
ghost use Rattle.uda_packet.specs.Commands.{BodyFits};
ghost use Rattle.uda_packet.specs.Display.{fault_display};
ghost use Rattle.uda_packet.specs.Opcode.{parameters};
ghost use Rattle.uda_packet.specs.Range.{EntriesFit};
ghost use Rattle.uda_packet.specs.Transfer.{has_buffer};
ghost use Rattle.uda50_show.specs.PacketText.{packet_text, end_message_text, command_text, bad_text, head_lines};
ghost use Rattle.uda50_show.specs.PacketText.{line, request_lines, named_status, flags_line, size_line, size_end};
ghost use Rattle.uda50_show.specs.PacketText.{parameter_lines, transfer_lines, buffer_line, protection_line};
ghost use Rattle.uda50_show.specs.PacketText.{result_lines, protection_name, bad_title};
ghost use Rattle.uda50_show.specs.Pieces.{piece_text, pieces_text};

use crate::digits::{ascii_text, hex_byte, hex_long, hex_word, write_number};
use crate::fields::{code, modifiers};
use arrayvec::{ArrayString, ArrayVec};
use itoa::Buffer;
use std::fmt;
use uda_packet::{
    Bad, BadKind, Command, End, EndBody, Flags, Op, Transfer, UnitFlags, decode_command,
    decode_end, status,
};

/// The number of bytes for which [`Packet::text`] has room. No text is longer.
pub const PACKET_TEXT: usize = 256;

/// The 48 bytes of a message. Its text has a line for each field. If byte 8 is an end code, the text is
/// that of an end message. Otherwise it is that of a command, or of an invalid command.
#[derive(Clone, Copy, Debug, PartialEq, Eq)]
pub struct Packet(pub [u8; 48]);

impl Packet {
    /// Returns whether the bytes are a command or an end message of the strict profile.
    pub fn is_valid(&self) -> bool {
        decode_end(&self.0).is_some() || decode_command(&self.0).is_ok()
    }

    /// Returns the text in one piece.
    pub fn text(&self) -> ArrayString<PACKET_TEXT>
        ensures text { result.bytes ≡ packet_text self.now.0 }
    {
        let pieces = self.pieces();
        let mut text = ArrayString::new();
        for piece in pieces.0.as_slice() {
            piece.append_to(&mut text);
        }
        text
    }

    // Returns the pieces of the text.
    #[tactic(auto, unfolding(crate::specs::PacketText::packet_text))]
    fn pieces(&self) -> TextPieces
        ensures text { pieces_text result.0.items ≡ packet_text self.now.0 }
        ensures short { length (pieces_text result.0.items) ≤ 256 }
    {
        if let Some(end) = decode_end(&self.0) {
            return TextPieces::of_end(&end);
        }
        let (code, modifiers) = (code(&self.0), modifiers(&self.0));
        match decode_command(&self.0) {
            Ok(command) => TextPieces::of_command(&command, modifiers),
            Err(bad) => TextPieces::of_bad(&bad, code, modifiers),
        }
    }
}

impl fmt::Display for Packet {
    ghost output = { λ packet. Some (packet_text packet.0) };

    fn fmt<W: fmt::Write>(&self, f: &mut fmt::Formatter<W>) -> fmt::Result {
        let pieces = self.pieces();
        for piece in pieces.0.as_slice() {
            piece.write(f)?;
        }
        Ok(())
    }
}

// A piece of the text of a packet.
#[derive(Clone, Copy, Drop)]
enum TextPiece {
    // A text.
    Text(&'static str),
    // A number in decimal.
    Decimal(u32),
    // A byte as two hexadecimal digits.
    Byte(u8),
    // A word of two bytes as four hexadecimal digits.
    Word(u16),
    // A long word of four bytes as eight hexadecimal digits.
    Long(u32),
}

impl Default for TextPiece {
    fn default() -> TextPiece {
        TextPiece::Text("")
    }
}

impl TextPiece {
    // Writes the piece. A number with zeros before it is two pieces for the writer.
    fn write<W: fmt::Write>(&self, f: &mut fmt::Formatter<W>) -> fmt::Result
        ensures { WritesOnOk W.write_str_gives f.old result (piece_text self.now) f.new }
    {
        match *self {
            TextPiece::Text(words) => f.write_str(words),
            TextPiece::Decimal(number) => write!(f, "{number}"),
            TextPiece::Byte(byte) => write_number(f, &hex_byte(byte)),
            TextPiece::Word(word) => write_number(f, &hex_word(word)),
            TextPiece::Long(long) => write_number(f, &hex_long(long)),
        }
    }

    // Appends the piece to a text that has room for it.
    fn append_to(&self, text: &mut ArrayString<PACKET_TEXT>)
        requires room { array_string_len text.old + length (piece_text self.now) ≤ 256 }
        ensures appended { text.new.bytes ≡ text.old.bytes ++ piece_text self.now }
    {
        match *self {
            TextPiece::Text(words) => text.push_str(words),
            TextPiece::Decimal(number) => text.push_str(Buffer::new().format(number)),
            TextPiece::Byte(byte) => text.push_str(ascii_text(&hex_byte(byte))),
            TextPiece::Word(word) => text.push_str(ascii_text(&hex_word(word))),
            TextPiece::Long(long) => text.push_str(ascii_text(&hex_long(long))),
        }
    }
}

// The pieces of the text of a packet. An end message of Online and a Read have the most.
#[derive(Drop)]
struct TextPieces(ArrayVec<TextPiece, 24>);

impl TextPieces {
    // Returns the pieces of an end message.
    fn of_end(end: &End) -> TextPieces
        ensures text { pieces_text result.0.items ≡ end_message_text end.now }
        ensures short { length (pieces_text result.0.items) ≤ 256 }
    {
        let End {
            reference,
            unit,
            status,
            body,
        } = *end;
        let mut pieces = TextPieces(ArrayVec::new());
        pieces.line("end message: ", TextPiece::Text(body.name()));
        pieces.request_lines(reference, unit);
        pieces.line("  end code    0x", TextPiece::Byte(body.code()));
        pieces.status_line("  status      0x", status);
        pieces.result_lines(body);
        pieces
    }

    // Returns the pieces of a command with these modifiers.
    fn of_command(command: &Command, modifiers: u16) -> TextPieces
        ensures text { pieces_text result.0.items ≡ command_text command.now modifiers }
        ensures short { length (pieces_text result.0.items) ≤ 256 }
    {
        let Command {
            reference,
            unit,
            op,
        } = *command;
        let mut pieces = TextPieces(ArrayVec::new());
        pieces.line("command: ", TextPiece::Text(op.name()));
        pieces.head_lines(reference, unit, op.opcode(), modifiers);
        pieces.parameter_lines(op);
        pieces
    }

    // Returns the pieces of an invalid command with this byte in the place of an opcode, and with these
    // modifiers.
    fn of_bad(bad: &Bad, code: u8, modifiers: u16) -> TextPieces
        ensures text { pieces_text result.0.items ≡ bad_text bad.now code modifiers }
        ensures short { length (pieces_text result.0.items) ≤ 256 }
    {
        let mut pieces = TextPieces(ArrayVec::new());
        pieces.title(bad.kind, bad.body.name());
        pieces.push(TextPiece::Text(fault_text(bad.kind)));
        pieces.push(TextPiece::Text("\n"));
        pieces.head_lines(bad.reference, bad.unit, code, modifiers);
        pieces.status_line("  rejected    status 0x", bad.end().status);
        pieces
    }

    // Adds a piece.
    fn push(&mut self, piece: TextPiece)
        requires room { array_vec_len self.old.0 + 1 ≤ 24 }
        ensures text { pieces_text self.new.0.items
            ≡ pieces_text self.old.0.items ++ piece_text piece }
        ensures count { array_vec_len self.new.0 ≡ array_vec_len self.old.0 + 1 }
    {
        self.0.push(piece);
    }

    // Adds a line: a label and a value.
    fn line(&mut self, label: &'static str, value: TextPiece)
        requires room { array_vec_len self.old.0 + 3 ≤ 24 }
        ensures text { pieces_text self.new.0.items
            ≡ pieces_text self.old.0.items ++ line label.now (piece_text value) }
        ensures count { array_vec_len self.new.0 ≡ array_vec_len self.old.0 + 3 }
    {
        self.push(TextPiece::Text(label));
        self.push(value);
        self.push(TextPiece::Text("\n"));
    }

    // Adds the line of a status word, with its name.
    fn status_line(&mut self, label: &'static str, status: u16)
        requires room { array_vec_len self.old.0 + 5 ≤ 24 }
        ensures text { pieces_text self.new.0.items
            ≡ pieces_text self.old.0.items ++ line label.now (named_status status) }
        ensures count { array_vec_len self.new.0 ≡ array_vec_len self.old.0 + 5 }
    {
        self.push(TextPiece::Text(label));
        self.push(TextPiece::Word(status));
        self.push(TextPiece::Text(" ("));
        self.push(TextPiece::Text(status::name(status)));
        self.push(TextPiece::Text(")\n"));
    }

    // Adds the lines of the reference and the unit.
    fn request_lines(&mut self, reference: u32, unit: u16)
        requires room { array_vec_len self.old.0 + 6 ≤ 24 }
        ensures text { pieces_text self.new.0.items
            ≡ pieces_text self.old.0.items ++ request_lines reference unit }
        ensures count { array_vec_len self.new.0 ≡ array_vec_len self.old.0 + 6 }
    {
        self.line("  reference   ", TextPiece::Decimal(reference));
        self.line("  unit        ", TextPiece::Decimal(u32::from(unit)));
    }

    // Adds the lines of the fields that valid and invalid commands have.
    fn head_lines(&mut self, reference: u32, unit: u16, opcode: u8, modifiers: u16)
        requires room { array_vec_len self.old.0 + 12 ≤ 24 }
        ensures text { pieces_text self.new.0.items
            ≡ pieces_text self.old.0.items ++ head_lines reference unit opcode modifiers }
        ensures count { array_vec_len self.new.0 ≡ array_vec_len self.old.0 + 12 }
    {
        self.request_lines(reference, unit);
        self.line("  opcode      0x", TextPiece::Byte(opcode));
        self.line("  modifiers   0x", TextPiece::Word(modifiers));
    }

    // Adds the lines of an end message's results.
    fn result_lines(&mut self, body: EndBody)
        requires room { array_vec_len self.old.0 + 7 ≤ 24 }
        ensures text { pieces_text self.new.0.items ≡ pieces_text self.old.0.items ++ result_lines body }
        ensures fits { BodyFits body }
    {
        match body {
            EndBody::Status { flags } => self.flags_line(flags),
            EndBody::Online { flags, size } => {
                self.flags_line(flags);
                self.size_line(size);
            }
            EndBody::Moved { bytes, .. } => self.line("  byte count  ", TextPiece::Decimal(bytes)),
            EndBody::Invalid | EndBody::Controller | EndBody::Available => {}
        }
    }

    // Adds the line of the unit flags.
    fn flags_line(&mut self, flags: u16)
        requires room { array_vec_len self.old.0 + 4 ≤ 24 }
        ensures text { pieces_text self.new.0.items ≡ pieces_text self.old.0.items ++ flags_line flags }
        ensures count { array_vec_len self.new.0 ≡ array_vec_len self.old.0 + 4 }
    {
        self.push(TextPiece::Text("  unit flags  0x"));
        self.push(TextPiece::Word(flags));
        self.push(TextPiece::Text(protection_name(flags)));
        self.push(TextPiece::Text("\n"));
    }

    // Adds the line of a unit's size.
    fn size_line(&mut self, size: u32)
        requires room { array_vec_len self.old.0 + 3 ≤ 24 }
        ensures text { pieces_text self.new.0.items ≡ pieces_text self.old.0.items ++ size_line size }
        ensures count { array_vec_len self.new.0 ≡ array_vec_len self.old.0 + 3 }
    {
        self.push(TextPiece::Text("  unit size   "));
        self.push(TextPiece::Decimal(size));
        self.push(TextPiece::Text(size_end(size)));
    }

    // Adds the lines of a command's parameters.
    fn parameter_lines(&mut self, op: Op)
        requires room { array_vec_len self.old.0 + 9 ≤ 24 }
        ensures text { pieces_text self.new.0.items ≡ pieces_text self.old.0.items ++ parameter_lines op }
        ensures fits { EntriesFit (parameters op) }
    {
        match op {
            Op::Online { soft } => self.protection_line(soft),
            _ => self.transfer_lines(op.transfer()),
        }
    }

    // Adds the line of an Online that asks for software protection, or for none.
    fn protection_line(&mut self, soft: Option<bool>)
        requires room { array_vec_len self.old.0 + 3 ≤ 24 }
        ensures text { pieces_text self.new.0.items ≡ pieces_text self.old.0.items ++ protection_line soft }
    {
        let asked = match soft {
            Some(true) => "on",
            Some(false) => "off",
            None => return,
        };
        self.push(TextPiece::Text("  protection  "));
        self.push(TextPiece::Text(asked));
        self.push(TextPiece::Text(" (Set Write Protect)\n"));
    }

    // Adds the lines of a transfer's parameters, if the command is one.
    fn transfer_lines(&mut self, transfer: Option<Transfer>)
        requires room { array_vec_len self.old.0 + 9 ≤ 24 }
        ensures text { pieces_text self.new.0.items
            ≡ pieces_text self.old.0.items ++ transfer_lines transfer }
    {
        if let Some(transfer) = transfer {
            self.line("  byte count  ", TextPiece::Decimal(transfer.bytes));
            self.buffer_line(&transfer);
            self.line("  lbn         ", TextPiece::Decimal(transfer.lbn));
        }
    }

    // Adds the line of a transfer's buffer, if it has one.
    fn buffer_line(&mut self, transfer: &Transfer)
        requires room { array_vec_len self.old.0 + 3 ≤ 24 }
        ensures text { pieces_text self.new.0.items
            ≡ pieces_text self.old.0.items ++ buffer_line (has_buffer transfer.now.kind) transfer.now.buffer }
        ensures count { array_vec_len self.new.0 ≤ array_vec_len self.old.0 + 3 }
    {
        if transfer.kind.has_buffer() {
            self.line("  buffer      0x", TextPiece::Long(transfer.buffer));
        }
    }

    // Adds the title of an invalid command of this name, up to the fault.
    fn title(&mut self, kind: BadKind, name: &'static str)
        requires room { array_vec_len self.old.0 + 3 ≤ 24 }
        ensures text { pieces_text self.new.0.items
            ≡ pieces_text self.old.0.items ++ bad_title kind name.now }
        ensures count { array_vec_len self.new.0 ≤ array_vec_len self.old.0 + 3 }
    {
        match kind {
            BadKind::Opcode => self.push(TextPiece::Text("neither a command nor an end message: ")),
            BadKind::Modifiers | BadKind::Version => {
                self.push(TextPiece::Text("invalid command, "));
                self.push(TextPiece::Text(name));
                self.push(TextPiece::Text(": "));
            }
        }
    }
}

/// Returns what follows the number of a unit's blocks on its line.
pub(crate) fn size_end(size: u32) -> &'static str
    ensures end { result.now ≡ size_end size }
{
    if size == 1 { " block\n" } else { " blocks\n" }
}

/// Returns the write protection that unit flags tell.
pub(crate) fn protection_name(flags: u16) -> &'static str
    ensures name { result.now ≡ protection_name flags }
{
    let bits = UnitFlags::from_bits_retain(flags);
    let software = bits.contains(UnitFlags::SOFT);
    let hardware = bits.contains(UnitFlags::HARD);
    match (software, hardware) {
        (false, false) => "",
        (true, false) => " (software write protection)",
        (false, true) => " (hardware write protection)",
        (true, true) => " (software and hardware write protection)",
    }
}

// Returns the text of an invalid field.
fn fault_text(kind: BadKind) -> &'static str
    ensures text { result.now ≡ fault_display kind }
{
    match kind {
        BadKind::Opcode => "no command has this opcode",
        BadKind::Modifiers => "a modifier is none of the command's",
        BadKind::Version => "the version of MSCP is not 0",
    }
}
