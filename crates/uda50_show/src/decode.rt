//! The loop of `uda50 decode`: it reads the lines of a text, and prints the packets that they complete by their fields.
ghost use Rattle.std.specs.Prelude.{◌≡◌, ◌<◌, true, IfOk, IfErr};
ghost use Rattle.uda50_show.specs.DecodeErrors.{IsCounted};

use crate::{COMPATIBLE_TEXT, CompatibleMessage, Packet, PacketReader};
use std::alloc::Global;
use std::io;
use std::io::{BufRead, BufReader, BufWriter, ErrorKind, Read, Write};
use std::marker::Model;

mod error;

pub use error::DecodeError;

/// The most bytes that are kept for the next line. The memory of a longer line is freed.
pub const LINE_ROOM: usize = 4_096;

/// The bytes of the longest text before a packet, `packet 18446744073709551615, `.
const HEAD_ROOM: usize = 29;

/// The most bytes of packets that go out in one write. A pipe takes this many in one piece.
const WRITE_LIMIT: usize = 4_096;

/// What a text has, if all of it is packets.
#[derive(Clone, Copy, Debug)]
pub struct Decoded {
    /// The number of packets.
    pub packets: u64,
    /// Whether one of them is invalid.
    pub invalid: bool,
}

// The state of reading packets. Contracts see the number of packets. If one was invalid, it isn't 0.
#[derive(Drop)]
struct DecodeProgress {
    reader: PacketReader,
    packets: u64,
    invalid: bool,
}

impl Model for DecodeProgress {
    ghost use Rattle.std.specs.Prelude.{ℕ, ◌≡◌, ◌<◌, true};

    ghost Value = { ℕ };

    ghost view = { λ progress. progress.packets };

    ghost invariant = { λ progress. progress.invalid ≡ true → 0 < progress.packets };
}

impl DecodeProgress {
    // Makes the state before the first packet.
    fn new() -> DecodeProgress {
        DecodeProgress {
            reader: PacketReader::new(),
            packets: 0,
            invalid: false,
        }
    }

    // Returns the result at the end of the text.
    fn end(&self) -> Result<Decoded, DecodeError>
        ensures invalid { IfOk result (λ decoded. decoded.invalid ≡ true → 0 < decoded.packets) }
        ensures errors { IfErr result IsCounted }
    {
        match self.reader.filled() {
            0 => Ok(Decoded {
                packets: self.packets,
                invalid: self.invalid,
            }),
            bytes => Err(DecodeError::ShortPacket(bytes)),
        }
    }
}

/// Prints the packets of a text. What it printed goes out before it may have to wait for more of the text,
/// before an error of the text, and at the end.
pub fn decode<R: Read + Drop, W: Write + Drop>(
    alloc: Global,
    mut input: BufReader<R>,
    out: &mut BufWriter<W>,
) -> Result<Decoded, DecodeError>
    ensures invalid { IfOk result (λ decoded. decoded.invalid ≡ true → 0 < decoded.packets) }
    ensures errors { IfErr result IsCounted }
{
    let mut progress = DecodeProgress::new();
    let mut line = String::new(alloc);
    for lines_before in 0..u64::MAX {
        if !input.buffer().contains(&b'\n') {
            out.flush()?;
        }
        let read = match input.read_line(&mut line) {
            Ok(read) => read,
            Err(error) => {
                out.flush()?;
                return Err(read_error(lines_before, error));
            }
        };
        if read == 0 {
            return progress.end();
        }
        decode_line(lines_before, line.as_str(), &mut progress, out)?;
        if line.capacity() > LINE_ROOM {
            line = String::new(alloc);
        }
        line.clear();
    }
    Err(DecodeError::TooManyLines)
}

// Returns the error of the line that follows `lines_before` lines and can't be read.
fn read_error(lines_before: u64, error: io::Error) -> DecodeError
    ensures counted { IsCounted result }
{
    match error.kind() {
        ErrorKind::InvalidData => DecodeError::NotText(lines_before.saturating_add(1)),
        _ => DecodeError::Read(error),
    }
}

// Reads the tokens of the line that follows `lines_before` lines, and prints the packets that they complete.
// `#` begins a comment.
fn decode_line<W: Write + Drop>(
    lines_before: u64,
    text: &str,
    progress: &mut DecodeProgress,
    out: &mut BufWriter<W>,
) -> Result<(), DecodeError>
    ensures errors { IfErr result IsCounted }
{
    let line = lines_before.saturating_add(1);
    let tokens = match text.split_once('#') {
        Some((tokens, _)) => tokens,
        None => text,
    };
    let mut word = 0u64;
    for token in tokens.split_ascii_whitespace() {
        word = word.saturating_add(1);
        let packet = match progress.reader.push_token(token) {
            Ok(packet) => packet,
            Err(error) => {
                out.flush()?;
                return Err(DecodeError::Token { line, word, error });
            }
        };
        if let Some(packet) = packet {
            progress.packets = progress.packets.saturating_add(1);
            let is_valid = packet.is_valid();
            progress.invalid |= !is_valid;
            if is_valid || !put_compatible(out, progress.packets, packet)? {
                put_packet_text(out, progress.packets, &packet)?;
            }
        }
    }
    Ok(())
}

// Prints a packet as a message that only the compatible profile has. Returns whether it is one. It takes a copy and
// isn't inlined, so that a token that completes no packet costs nothing for it.
#[inline(never)]
fn put_compatible<W: Write + Drop>(
    out: &mut BufWriter<W>,
    number: u64,
    packet: Packet,
) -> io::Result<bool> {
    match CompatibleMessage::read(&packet) {
        Some(message) => {
            put_compatible_message(out, number, &message)?;
            Ok(true)
        }
        None => Ok(false),
    }
}

// Prints the text of a packet. If it might be too long for the write of the packets that are gathered, these
// go out first. So each write ends with a packet.
fn put_packet_text<W: Write + Drop>(
    out: &mut BufWriter<W>,
    number: u64,
    packet: &Packet,
) -> io::Result<()> {
    let text = packet.text();
    if out.buffer().len() + HEAD_ROOM + text.len() > WRITE_LIMIT {
        out.flush()?;
    }
    write!(out, "packet {number}, ")?;
    out.write_all(text.as_bytes())
}

// Prints a message that only the compatible profile has, in the same way.
fn put_compatible_message<W: Write + Drop>(
    out: &mut BufWriter<W>,
    number: u64,
    message: &CompatibleMessage,
) -> io::Result<()> {
    if out.buffer().len() + HEAD_ROOM + COMPATIBLE_TEXT > WRITE_LIMIT {
        out.flush()?;
    }
    write!(out, "packet {number}, {message}")
}
