//! The same commands through the rings of two ports: one works in a borrowed slice, the other in a
//! [`HostMemory`](uda_mem::HostMemory).
use crate::layers::{COMMANDS, Errand, ThroughPort, drives};
use crate::measure::{Contest, by_turns};
use anyhow::{Result, bail};
use std::alloc::Global;
use uda_exec::Exec;
use uda_image::MemImage;
use uda_mem::is_memory;
use uda_packet::{Command, Op, encode_command};
use uda_port::{Port, Turn};

/// Runs the rounds through a port's rings in a slice.
pub fn through_slice(rt: &HostRuntime, work: &str, blocks: &str, rounds: u32) -> Result<()> {
    let mut pair = ThroughSlice::new(rt.alloc(), Errand::named(work, blocks)?)?;
    by_turns(rt, &mut pair, rounds)
}

// A running port with rings of one descriptor, whose unit 0 is online, the bytes that it works in, and a
// similar port over a host memory.
#[derive(Drop)]
struct ThroughSlice {
    port: Port<MemImage>,
    bytes: Vec<u8>,
    errand: Errand,
    owned: ThroughPort,
}

impl ThroughSlice {
    fn new(alloc: Global, errand: Errand) -> Result<ThroughSlice> {
        let mut bytes = vec![in alloc; 0u8; 32_768]?;
        let port = port(alloc, &mut bytes)?;
        let owned = ThroughPort::new(alloc, errand)?;
        Ok(ThroughSlice {
            port,
            bytes,
            errand,
            owned,
        })
    }
}

impl Contest for ThroughSlice {
    // Runs one command after another, in three turns each.
    fn measured(&mut self) -> Result<()> {
        for n in 0..COMMANDS {
            if !send(&mut self.port, &mut self.bytes, &self.errand.command(n)) {
                bail!("no success");
            }
        }
        Ok(())
    }

    fn compared(&mut self) -> Result<()> {
        self.owned.measured()
    }
}

fn port(alloc: Global, memory: &mut [u8]) -> Result<Port<MemImage>> {
    let mut port = Port::new(alloc, Exec::new(drives(alloc)?))?;
    start_up(&mut port, memory);
    let online = Command {
        reference: 1,
        unit: 0,
        op: Op::Online { soft: None },
    };
    if !send(&mut port, memory, &online) {
        bail!("no success");
    }
    Ok(port)
}

// Initializes a port with rings of one descriptor at 8 and 12, whose texts are at 0x100 and 0x200.
fn start_up(port: &mut Port<MemImage>, memory: &mut [u8]) {
    for word in [0x8000, 0x0008, 0x0000, 0x0001] {
        port.write_sa_in(word, memory);
    }
    for (address, word) in [(0xfc, 48), (0x1fc, 48), (8, 0x100), (12, 0x200)] {
        uda_mem::write_word(memory, address, word);
    }
}

// Posts a command, and runs the turns that it needs. Returns whether it succeeded.
fn send(port: &mut Port<MemImage>, memory: &mut [u8], command: &Command) -> bool {
    post(memory, command);
    port.read_ip();
    for turn in [Turn::Fetched, Turn::Executed, Turn::Delivered] {
        if !is_memory(memory) || port.turn_in(memory) != turn {
            return false;
        }
    }
    uda_mem::read_word(memory, 0x10a) == Some(0)
}

fn post(memory: &mut [u8], command: &Command) {
    if uda_mem::has(memory, 0x200, 48) {
        uda_mem::put_bytes(memory, 0x200, &encode_command(command));
    }
    uda_mem::write_word(memory, 10, 0x8000);
    uda_mem::write_word(memory, 14, 0x8000);
}
