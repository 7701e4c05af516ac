//! An example of the port's use: an emulator with a guest. The guest initializes the port and posts a Get
//! Unit Status of unit 0. It finds the end message in its own memory. After each call the emulator asks the
//! port for the interrupt request that it would assert on its bus.

use anyhow::Result;
use std::alloc::Global;
use uda_exec::Exec;
use uda_image::{Drive, MemImage};
use uda_mem::HostMemory;
use uda_packet::{Command, End, Op, decode_end, encode_command};
use uda_port::Port;

/// Prints what the guest and the emulator see, and the guest's end message.
pub(crate) fn run(rt: &HostRuntime) -> Result<()> {
    let mut port = port_of_a_guest(rt.alloc())?;
    let mut memory = HostMemory::new(rt.alloc(), 4096)?;
    emulate(rt, &mut port, &mut memory)
}

// Executes the guest, and prints what it sees.
fn emulate(rt: &HostRuntime, port: &mut Port<MemImage>, memory: &mut HostMemory) -> Result<()> {
    start_up(rt, port, memory)?;
    post(memory);
    serve(rt, port, memory)?;
    if let Some(end) = end_message(memory) {
        println!(rt; "{end}")?;
    }
    println!(rt; "{port:?}")?;
    Ok(())
}

// Makes the emulator's port with one drive, which has hardware write protection.
fn port_of_a_guest(alloc: Global) -> Result<Port<MemImage>> {
    let store = MemImage::new(alloc, 8)?;
    let drive = Drive { store, hard: true };
    let exec = Exec::new([Some(drive), None, None, None]);
    Ok(Port::compatible(alloc, exec)?)
}

// Writes the guest's four words to SA, and reads SA after each. They request interrupts with the vector at
// 108, and rings of one descriptor from address 8.
fn start_up(rt: &HostRuntime, port: &mut Port<MemImage>, memory: &mut HostMemory) -> Result<()> {
    for word in [0x809b, 0x0008, 0x0000, 0x0001] {
        port.write_sa(word, memory);
        let request = port.take_interrupt();
        println!(rt; "SA {:#06x}, interrupt {request:?}", port.read_sa())?;
    }
    Ok(())
}

// Gives the port a buffer and a command: a text and its length, and both descriptors, owned by the port,
// with the flag.
fn post(memory: &mut HostMemory) {
    let command = Command {
        reference: 1,
        unit: 0,
        op: Op::Status,
    };
    if let Some(text) = memory.window_mut(0x200, 48) {
        text.copy_from_slice(&encode_command(&command));
    }
    let words = [
        (0x1fc, 12),
        (8, 0x100),
        (10, 0xc000),
        (12, 0x200),
        (14, 0xc000),
    ];
    for (address, word) in words {
        memory.write_word(address, word);
    }
}

// Reads IP for the guest, and runs the port's turns for the emulator.
fn serve(rt: &HostRuntime, port: &mut Port<MemImage>, memory: &mut HostMemory) -> Result<()> {
    port.read_ip();
    for _ in 0..4 {
        let turn = port.turn(memory);
        let request = port.take_interrupt();
        println!(rt; "{turn:?}, interrupt {request:?}")?;
    }
    Ok(())
}

// Returns the end message in the guest's buffer.
fn end_message(memory: &HostMemory) -> Option<End> {
    decode_end(memory.window(0x100, 48)?.as_array()?)
}
