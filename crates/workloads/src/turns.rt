//! A guest's commands through the rings of a port, in turns over a slice.
ghost use Rattle.std.specs.Prelude.{◌<◌};

use crate::digest::Digest;
use crate::draw::Draw;
use anyhow::{Result, bail};
use std::alloc::Global;
use uda_exec::Exec;
use uda_image::{Drive, MemImage};
use uda_mem::{is_memory, put_bytes, window, write_word};
use uda_packet::{Command, Op, encode_command};
use uda_port::{Port, Turn};

/// The bytes of memory on a UNIBUS.
const MEMORY: u32 = 253_952;

/// The base of the response ring. The command ring follows it.
const RINGS: u32 = 8;

/// The texts of end messages and of commands, 64 bytes apart, and the buffers of transfers.
const END_TEXTS: u32 = 0x404;

const COMMAND_TEXTS: u32 = 0x804;

const BUFFERS: u32 = 0x1000;

/// The number of blocks of unit 0.
const BLOCKS: u32 = 4_096;

/// The number of commands of a round and a guest.
const COMMANDS: u32 = 4_096;

/// Runs the commands of each round by four guests: strict and compatible ports, with rings of eight and of
/// one.
pub fn run(alloc: Global, draw: &mut Draw, rounds: u32, digest: &mut Digest) -> Result<()> {
    let mut guests = guests(alloc, draw)?;
    for _ in 0..rounds {
        for guest in guests.iter_mut() {
            guest.run_round(draw, digest)?;
        }
    }
    for guest in guests.iter() {
        if let Some(image) = guest.port.store(0) {
            digest.add_bytes(image.bytes());
        }
    }
    Ok(())
}

// Makes the guests.
fn guests(alloc: Global, draw: &mut Draw) -> Result<Vec<Guest>> {
    let mut guests = Vec::with_capacity(alloc, 4)?;
    for exponent in [3, 0] {
        guests.push(strict(alloc, draw, exponent)?)?;
        guests.push(compatible(alloc, draw, exponent)?)?;
    }
    Ok(guests)
}

// Makes a guest of a strict port.
fn strict(alloc: Global, draw: &mut Draw, exponent: u32) -> Result<Guest> {
    Guest::new(alloc, draw, Port::new(alloc, units(alloc)?)?, exponent)
}

// Makes a guest of a compatible port.
fn compatible(alloc: Global, draw: &mut Draw, exponent: u32) -> Result<Guest> {
    Guest::new(
        alloc,
        draw,
        Port::compatible(alloc, units(alloc)?)?,
        exponent,
    )
}

// A guest: its port, its memory, and the next descriptor of its rings of `slots` descriptors.
#[derive(Drop)]
struct Guest {
    port: Port<MemImage>,
    memory: Vec<u8>,
    slots: u32,
    next: u32,
    reference: u32,
    lbn: u32,
}

impl Guest {
    // Makes a guest of this port, whose units 0 and 1 are online. The rings have two to the power of `exponent` descriptors.
    fn new(alloc: Global, draw: &mut Draw, port: Port<MemImage>, exponent: u32) -> Result<Guest> {
        let mut memory = vec![in alloc; 0u8; MEMORY as usize]?;
        draw.fill(&mut memory);
        let mut guest = Guest {
            port,
            memory,
            slots: 1 << (exponent % 8),
            next: 0,
            reference: 0,
            lbn: 0,
        };
        let lengths = low_word(exponent % 8 * 0x0900);
        for word in [0x8000 | lengths, low_word(RINGS), 0, 1] {
            guest.port.write_sa_in(word, &mut guest.memory);
        }
        for unit in [0, 1] {
            guest.reference = guest.reference.saturating_add(1);
            let online = Command {
                reference: guest.reference,
                unit,
                op: Op::Online { soft: None },
            };
            guest.post(0, &encode_command(&online));
            guest.take_turns(1, &mut Digest::new())?;
        }
        Ok(guest)
    }

    // Runs the commands of a round, as many at a time as a ring has descriptors.
    fn run_round(&mut self, draw: &mut Draw, digest: &mut Digest) -> Result<()> {
        for _ in 0..COMMANDS / self.slots.max(1) {
            for n in 0..self.slots {
                let text = self.command(draw);
                self.post(n, &text);
            }
            self.take_turns(self.slots, digest)?;
        }
        digest.add_bytes(&self.memory);
        Ok(())
    }

    // Returns the text of the next command. One in 64 has an opcode or a modifier that may be invalid.
    fn command(&mut self, draw: &mut Draw) -> [u8; 48] {
        self.reference = self.reference.wrapping_add(1);
        let choice = draw.number();
        let unit = match choice % 64 {
            0 => 9,
            1 => 2,
            2..6 => 1,
            _ => 0,
        };
        let op = self.op(draw);
        let mut text = encode_command(&Command {
            reference: self.reference,
            unit,
            op,
        });
        let [_, _, value, kind] = choice.to_le_bytes();
        match kind % 128 {
            0 => text[8] = 0x60 | (value % 8),
            1 => text[10] = value,
            _ => {}
        }
        text
    }

    // Returns an operation: most are Reads and Writes, and one in seven is a Get Unit Status.
    fn op(&mut self, draw: &mut Draw) -> Op {
        let choice = draw.number();
        let kind = choice % 128;
        if kind < 18 {
            return Op::Status;
        }
        let blocks = blocks(choice / 128 % 64);
        if choice / 8_192 % 2 == 0 {
            self.lbn = draw.number() % BLOCKS;
        }
        let lbn = self.lbn;
        self.lbn = self.lbn.saturating_add(blocks) % BLOCKS;
        let bytes = bytes(choice / 16_384, blocks);
        let address = address(draw.number(), bytes);
        match kind {
            18..76 => Op::Read {
                bytes,
                address,
                lbn,
            },
            76..120 => Op::Write {
                bytes,
                address,
                lbn,
            },
            120..124 => Op::Access { bytes, lbn },
            _ => Op::Erase { bytes, lbn },
        }
    }

    // Gives the port the n-th next command descriptor with this text, and a response descriptor.
    fn post(&mut self, n: u32, text: &[u8; 48]) {
        let slot = self.slot(n);
        let command = COMMAND_TEXTS.saturating_add(64 * slot);
        let end = END_TEXTS.saturating_add(64 * slot);
        if uda_mem::has(&self.memory, command, 48) {
            put_bytes(&mut self.memory, command, text);
        }
        let response_descriptor = RINGS.saturating_add(4 * slot);
        let command_descriptor = response_descriptor.saturating_add(self.slots.saturating_mul(4));
        let words = [
            (command.saturating_sub(4), 48),
            (command.saturating_sub(2), 0),
            (end.saturating_sub(4), 48),
            (response_descriptor, low_word(end)),
            (response_descriptor.saturating_add(2), 0x8000),
            (command_descriptor, low_word(command)),
            (command_descriptor.saturating_add(2), 0x8000),
        ];
        for (address, word) in words {
            write_word(&mut self.memory, address, word);
        }
    }

    // Returns the index of the n-th next descriptor, below 8.
    fn slot(&self, n: u32) -> u32
        ensures below { result < 8 }
    {
        self.next.saturating_add(n) % self.slots.max(1) % 8
    }

    // Takes turns until the port is idle, digests the end messages of the ring, and goes `count` slots on.
    fn take_turns(&mut self, count: u32, digest: &mut Digest) -> Result<()> {
        self.port.read_ip();
        for _ in 0..64 {
            if !is_memory(&self.memory) {
                bail!("no memory of a port");
            }
            match self.port.turn_in(&mut self.memory) {
                Turn::Idle => break,
                Turn::Dead => bail!("the port died"),
                _ => {}
            }
        }
        if let Some(texts) = window(&self.memory, END_TEXTS.saturating_sub(4), 64 * 8) {
            digest.add_bytes(&texts[..64 * self.slots.min(8) as usize]);
        }
        self.next = self.slot(count);
        Ok(())
    }
}

// Makes the units of a guest: one, and one that is write-protected.
fn units(alloc: Global) -> Result<Exec<MemImage>> {
    let protected = drive(alloc, 1_000, true)?;
    Ok(Exec::new([drive(alloc, BLOCKS, false)?, protected, None, None]))
}

// Makes a drive of zeros.
fn drive(alloc: Global, blocks: u32, hard: bool) -> Result<Option<Drive<MemImage>>> {
    let store = MemImage::new(alloc, blocks)?;
    Ok(Some(Drive { store, hard }))
}

// Returns the low word of an address.
fn low_word(address: u32) -> u16 {
    let [low, high, ..] = address.to_le_bytes();
    u16::from_le_bytes([low, high])
}

// Returns the number of blocks of a transfer.
fn blocks(choice: u32) -> u32 {
    match choice {
        0..36 => 1,
        36..46 => 2,
        46..56 => 8,
        56..62 => 32,
        _ => 127,
    }
}

// Returns the byte count of a transfer. One in eight is no multiple of 512, and one in 64 is odd.
fn bytes(choice: u32, blocks: u32) -> u32 {
    let bytes = blocks.saturating_mul(512);
    match choice % 64 {
        0 => bytes.saturating_sub(1),
        1..8 => bytes.saturating_sub(choice / 64 % 255 * 2),
        _ => bytes,
    }
}

// Returns the address of a buffer. One in 64 is odd, and one in 64 ends outside memory.
fn address(choice: u32, bytes: u32) -> u32 {
    let room = MEMORY.saturating_sub(BUFFERS).saturating_sub(bytes);
    let address = BUFFERS.saturating_add(choice / 64 % room.max(1) & !1);
    match choice % 64 {
        0 => address.saturating_add(1),
        1 => MEMORY.saturating_sub(bytes).saturating_add(2),
        _ => address,
    }
}
