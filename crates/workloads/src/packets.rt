//! Packets read from tokens and printed: the texts of `uda50 decode`.

use crate::digest::Digest;
use crate::draw::Draw;
use anyhow::Result;
use std::alloc::Global;
use std::fmt::Write;
use uda_packet::{Command, End, EndBody, Kind, Op, encode_command, encode_end};
use uda50_show::{Packet, PacketReader};

/// The number of packets of a round.
const PACKETS: u32 = 4_096;

/// Reads and prints the packets of each round. They come as bytes in hexadecimal, or as words in octal. One in
/// sixteen is neither a command nor an end message. Between the packets are tokens that are none.
pub fn run(alloc: Global, draw: &mut Draw, rounds: u32, digest: &mut Digest) -> Result<()> {
    let mut reader = PacketReader::new();
    let mut printed = String::with_capacity(alloc, 1_024)?;
    let bytes = token_table(alloc, 2, 4)?;
    let words = token_table(alloc, 6, 3)?;
    for _ in 0..rounds {
        for _ in 0..PACKETS {
            let packet = packet(draw);
            if draw.once_in(3) {
                for n in 0..24 {
                    let word = u16::from_le_bytes([packet[2 * n], packet[2 * n + 1]]);
                    let token = token_of(words.as_str(), 6, usize::from(word));
                    read(&mut reader, token, &mut printed, digest)?;
                }
            } else {
                for byte in packet {
                    let token = token_of(bytes.as_str(), 2, usize::from(byte));
                    read(&mut reader, token, &mut printed, digest)?;
                }
            }
            if draw.once_in(8) {
                read_stray(&mut reader, draw, digest);
            }
        }
    }
    Ok(())
}

// Reads a token, and prints the packet that it completes.
fn read(
    reader: &mut PacketReader,
    token: &str,
    printed: &mut String,
    digest: &mut Digest,
) -> Result<()> {
    match reader.push_token(token) {
        Ok(Some(packet)) => print(&packet, printed, digest),
        _ => Ok(()),
    }
}

// Prints a packet. It isn't inlined, since most tokens complete none.
#[inline(never)]
fn print(packet: &Packet, printed: &mut String, digest: &mut Digest) -> Result<()> {
    write!(printed, "{packet}")?;
    digest.add(u64::from(packet.is_valid()));
    digest.add_bytes(printed.as_bytes());
    printed.clear();
    Ok(())
}

// Returns the token of a number in a table of tokens of this length.
fn token_of(table: &str, length: usize, number: usize) -> &str {
    let start = number.saturating_mul(length);
    table.get(start..start.saturating_add(length)).unwrap_or("")
}

// Returns the tokens of every number of `digits` digits: 256 bytes or 65,536 words.
fn token_table(alloc: Global, digits: u32, bits: u32) -> Result<String> {
    let mut table = String::new(alloc);
    let count = if digits == 2 { 256 } else { 65_536 };
    for number in 0..count {
        push_digits(&mut table, number, digits, bits)?;
    }
    Ok(table)
}

// Reads a token that is no part of a packet.
fn read_stray(reader: &mut PacketReader, draw: &mut Draw, digest: &mut Digest) {
    let tokens = [
        "packet",
        "+1",
        "0x",
        "177777777",
        "200000",
        "-00001",
        "gg",
        "12345",
    ];
    let token = tokens[draw.below(8) as usize % 8];
    digest.add(u64::from(reader.push_token(token).is_ok()));
    digest.add(reader.filled() as u64);
}

// Returns the bytes of a packet: a command, an end message, or neither.
fn packet(draw: &mut Draw) -> [u8; 48] {
    let mut bytes = match draw.below(16) {
        0 => {
            let mut bytes = [0; 48];
            draw.fill(&mut bytes);
            bytes
        }
        1..9 => encode_command(&Command {
            reference: draw.number(),
            unit: u16::from(draw.byte() % 4),
            op: op(draw),
        }),
        _ => encode_end(&End {
            reference: draw.number(),
            unit: u16::from(draw.byte() % 4),
            status: status(draw),
            body: body(draw),
        }),
    };
    if draw.once_in(32) {
        bytes[10] ^= draw.byte();
    }
    bytes
}

fn op(draw: &mut Draw) -> Op {
    let (bytes, address, lbn) = (draw.below(65_536), draw.below(262_144), draw.number());
    match draw.below(12) {
        0 => Op::Status,
        1 => Op::Controller,
        2 => Op::Available,
        3 => Op::Online { soft: None },
        4 => Op::Online {
            soft: Some(draw.once_in(2)),
        },
        5 => Op::Access { bytes, lbn },
        6 => Op::Erase { bytes, lbn },
        7..10 => Op::Read {
            bytes,
            address,
            lbn,
        },
        _ => Op::Write {
            bytes,
            address,
            lbn,
        },
    }
}

fn status(draw: &mut Draw) -> u16 {
    let statuses = [
        0, 3, 4, 0xb, 0x23, 0x29, 0x69, 0x100, 0xc01, 0x1c01, 0x1006, 0x2006,
    ];
    statuses[draw.below(12) as usize % 12]
}

fn body(draw: &mut Draw) -> EndBody {
    let flags = if draw.once_in(2) { 0x1000 } else { 0 };
    match draw.below(8) {
        0 => EndBody::Status { flags },
        1 => EndBody::Online {
            flags,
            size: draw.number(),
        },
        2 => EndBody::Available,
        3 => EndBody::Controller,
        _ => EndBody::Moved {
            kind: kind(draw),
            bytes: draw.below(65_536),
        },
    }
}

fn kind(draw: &mut Draw) -> Kind {
    match draw.below(8) {
        0 => Kind::Access,
        1 => Kind::Erase,
        2..6 => Kind::Read,
        _ => Kind::Write,
    }
}

// Writes a number in `digits` digits of `bits` bits each.
fn push_digits(table: &mut String, number: u32, digits: u32, bits: u32) -> Result<()> {
    for n in 0..digits {
        let place = digits.saturating_sub(n).saturating_sub(1);
        let shift = place.saturating_mul(bits) % 32;
        let digit = (number >> shift) % (1 << (bits % 5));
        table.push(char::from_digit(digit, 16).unwrap_or('0'))?;
    }
    Ok(())
}
