//! The packets of texts, compared with a form that flushes after each packet and has memory of its own for
//! each line. Each write of that form is a packet.
use super::streams::{Bits, Sink};
use std::alloc::{AllocError, Global};
use std::io;
use std::io::{BufRead, BufReader, BufWriter, ErrorKind, Write};
use std::process::Abort;
use std::test::Fail;
use uda50_show::decode::{DecodeError, Decoded, LINE_ROOM, decode};
use uda50_show::{CompatibleMessage, Packet, PacketReader};

/// The state of the slower form.
#[derive(Drop)]
struct Progress {
    reader: PacketReader,
    packets: u64,
    invalid: bool,
}

// The slower form of `decode`.
fn decode_lines<R: BufRead + Drop, W: Write>(
    alloc: Global,
    input: R,
    out: &mut W,
) -> Result<Decoded, DecodeError> {
    let mut progress = Progress {
        reader: PacketReader::new(),
        packets: 0,
        invalid: false,
    };
    let mut number = 0u64;
    for line in input.lines(alloc) {
        number = number.saturating_add(1);
        let line = match line {
            Ok(line) => line,
            Err(error) if error.kind() == ErrorKind::InvalidData => {
                return Err(DecodeError::NotText(number));
            }
            Err(error) => return Err(DecodeError::Read(error)),
        };
        decode_line(number, line.as_str(), &mut progress, out)?;
    }
    match progress.reader.filled() {
        0 => Ok(Decoded {
            packets: progress.packets,
            invalid: progress.invalid,
        }),
        bytes => Err(DecodeError::ShortPacket(bytes)),
    }
}

// The slower form of a line.
fn decode_line<W: Write>(
    line: u64,
    text: &str,
    progress: &mut Progress,
    out: &mut W,
) -> Result<(), DecodeError> {
    let tokens = match text.split_once('#') {
        Some((tokens, _)) => tokens,
        None => text,
    };
    let mut word = 0u64;
    for token in tokens.split_ascii_whitespace() {
        word = word.saturating_add(1);
        let packet = match progress.reader.push_token(token) {
            Ok(packet) => packet,
            Err(error) => return Err(DecodeError::Token { line, word, error }),
        };
        if let Some(packet) = packet {
            progress.packets = progress.packets.saturating_add(1);
            progress.invalid |= !packet.is_valid();
            write_packet(progress.packets, &packet, out)?;
            out.flush()?;
        }
    }
    Ok(())
}

// Writes a packet. A message that only the compatible profile has is no packet of the strict one.
fn write_packet<W: Write>(number: u64, packet: &Packet, out: &mut W) -> io::Result<()> {
    match CompatibleMessage::read(packet) {
        Some(message) => write!(out, "packet {number}, {message}"),
        None => write!(out, "packet {number}, {packet}"),
    }
}

/// The tokens of a text, and how they are divided into lines.
#[derive(Clone, Copy, Debug)]
struct Shape {
    /// The number of tokens.
    tokens: usize,
    /// The number of tokens on a line. An even width makes Get Unit Status commands, and an odd one Aborts.
    width: usize,
    /// What ends a line.
    end: &'static str,
    /// The index of the token after which `other` is inserted.
    at: usize,
    /// The inserted bytes.
    other: &'static [u8],
}

impl Shape {
    // Returns the text.
    fn text(&self, alloc: Global) -> Result<Vec<u8>, AllocError> {
        let opcode = if self.width % 2 == 0 { "03 " } else { "01 " };
        let mut text = Vec::new(alloc);
        for n in 0..self.tokens {
            let token = if n % 48 == 8 { opcode } else { "00 " };
            text.extend_from_slice(token.as_bytes())?;
            if n == self.at {
                text.extend_from_slice(self.other)?;
            }
            if self.width > 0 && n % self.width == self.width - 1 {
                text.extend_from_slice(self.end.as_bytes())?;
            }
        }
        Ok(text)
    }
}

/// How a text comes, and where its packets go.
#[derive(Clone, Copy, Debug)]
struct Streams {
    /// The most bytes that a read brings.
    most: usize,
    /// The number of bytes that are read before reads fail.
    until: usize,
    /// The number of bytes that the writer takes.
    room: usize,
    /// The number of writes before the one that is refused, if one is.
    writes_before_refusal: Option<u32>,
}

/// What a form printed.
#[derive(Drop)]
struct Printed {
    /// The writer at the end of the program.
    out: Sink,
    /// The number of bytes that the form left in the buffer.
    left: usize,
    /// The result.
    done: String,
}

impl Printed {
    // Ends the output as the program does.
    fn of(
        alloc: Global,
        mut out: BufWriter<Sink>,
        done: Result<Decoded, DecodeError>,
    ) -> Result<Printed, AllocError> {
        let left = out.buffer().len();
        let _ = out.flush();
        let (out, _) = out.into_parts();
        let done = format!(in alloc; "{done:?}")?;
        Ok(Printed { out, left, done })
    }
}

// Prints the packets of a text, and prints them by the slower form.
fn print_twice(alloc: Global, text: &[u8], streams: Streams) -> io::Result<(Printed, Printed)> {
    let Streams {
        most,
        until,
        room,
        writes_before_refusal,
    } = streams;
    let bits = || Bits {
        left: text,
        most,
        until,
        calls: 0,
    };
    let sink = || Sink::new(alloc, room, writes_before_refusal);
    let mut out = BufWriter::new(alloc, sink())?;
    let done = decode(alloc, BufReader::new(alloc, bits())?, &mut out);
    let mut slow_out = BufWriter::new(alloc, sink())?;
    let slow = decode_lines(alloc, BufReader::new(alloc, bits())?, &mut slow_out);
    Ok((
        Printed::of(alloc, out, done)?,
        Printed::of(alloc, slow_out, slow)?,
    ))
}

// Compares outputs and results. The form may leave nothing in the buffer, unless the writer is full. If the
// writer has room for all, each write ends with a packet.
fn compare(
    rt: &(impl Alloc<A = Global> + Abort),
    shape: &Shape,
    streams: Streams,
) -> Result<(), Fail> {
    let alloc = rt.alloc();
    let text = shape.text(alloc)?;
    let (printed, wanted) = print_twice(alloc, &text, streams)?;
    assert!(rt;
        printed.out.taken == wanted.out.taken,
        "{shape:?}, {streams:?}"
    );
    assert_eq!(rt; printed.done, wanted.done, "{shape:?}, {streams:?}");
    let is_full = printed.out.taken.len() == streams.room;
    assert!(rt; printed.left == 0 || is_full, "{shape:?}, {streams:?}");
    for end in printed.out.ends.iter() {
        assert!(rt;
            is_full || wanted.out.ends.contains(end),
            "a write ends at {end}: {shape:?}, {streams:?}"
        );
    }
    Ok(())
}

// Compares outputs and results if one write is refused. The output is the whole one up to the end of a
// packet, and is as long as that of the slower form, or longer. The refusal is the result.
fn compare_refused(
    rt: &(impl Alloc<A = Global> + Abort),
    shape: &Shape,
    writes: u32,
) -> Result<(), Fail> {
    let alloc = rt.alloc();
    let text = shape.text(alloc)?;
    let mut streams = STREAMS[0];
    let (whole, packets) = print_twice(alloc, &text, streams)?;
    streams.writes_before_refusal = Some(writes);
    let (printed, wanted) = print_twice(alloc, &text, streams)?;
    assert!(rt;
        whole.out.taken.starts_with(&printed.out.taken),
        "{shape:?}, {writes}"
    );
    assert!(rt;
        printed.out.taken.len() >= wanted.out.taken.len(),
        "{shape:?}, {writes}"
    );
    for end in printed.out.ends.iter() {
        assert!(rt; packets.out.ends.contains(end), "{shape:?}, {writes}");
    }
    if !printed.out.will_refuse() {
        assert_eq!(rt; printed.done, wanted.done, "{shape:?}, {writes}");
    }
    Ok(())
}

const ENDS: [&str; 4] = ["\n", "\r\n", "# a comment\n\n", ""];

const OTHERS: [&[u8]; 5] = [b"", b"zz ", b"\xff ", b"\n000000 ", b"\n#\n"];

const ALL: usize = 1 << 20;

const STREAMS: [Streams; 5] = [
    Streams {
        most: LINE_ROOM,
        until: ALL,
        room: ALL,
        writes_before_refusal: None,
    },
    Streams {
        most: 61,
        until: ALL,
        room: ALL,
        writes_before_refusal: None,
    },
    Streams {
        most: 1,
        until: 2_500,
        room: ALL,
        writes_before_refusal: None,
    },
    Streams {
        most: 8_192,
        until: ALL,
        room: 999,
        writes_before_refusal: None,
    },
    Streams {
        most: 8_192,
        until: ALL,
        room: 0,
        writes_before_refusal: None,
    },
];

/// The widths of lines, with the tokens of the text and the index of the insertion. 1,365 tokens and a line
/// feed are as many bytes as are kept for the next line.
const WIDTHS: [(usize, usize, usize); 9] = [
    (1, 47, 3),
    (1, 1_440, 700),
    (47, 1_440, 700),
    (48, 47, 3),
    (48, 1_440, 700),
    (97, 1_440, 700),
    (1_365, 4_800, 2_800),
    (1_366, 4_800, 2_800),
    (4_000, 4_800, 2_800),
];

/// Lines of any length, also of more bytes than are kept for the next, with any end, and with tokens that
/// are wrong, bytes that aren't text, and ends inside a packet. They come in pieces of any length, also
/// from a reader that fails, and go to writers with room for all or for some of the output.
#[test]
fn packets_are_as_flushed_one_by_one(rt: HostRuntime) -> Result<(), Fail> {
    for (width, tokens, at) in WIDTHS {
        for end in ENDS {
            for other in OTHERS {
                let shape = Shape {
                    tokens,
                    width,
                    end,
                    at,
                    other,
                };
                for streams in STREAMS {
                    compare(&rt, &shape, streams)?;
                }
            }
        }
    }
    Ok(())
}

/// A write that is refused once, wherever it is, and whatever follows it: more packets, a wrong token, or a
/// part of a packet.
#[test]
fn a_refused_write_repeats_nothing(rt: HostRuntime) -> Result<(), Fail> {
    for (width, tokens, at) in WIDTHS {
        for other in OTHERS {
            let end = "\n";
            let shape = Shape {
                tokens,
                width,
                end,
                at,
                other,
            };
            for writes in [0, 1, 2, 3, 20] {
                compare_refused(&rt, &shape, writes)?;
            }
        }
    }
    Ok(())
}
