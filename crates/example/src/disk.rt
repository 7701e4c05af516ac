//! An example of the executor's use. Unit 0 is a drive of 1,000 blocks in memory. It is brought online,
//! written and read. A last Read is for a block that it doesn't have.

use anyhow::Result;
use uda_exec::{Exec, PENDING};
use uda_image::{Drive, MemImage};
use uda_mem::HostMemory;
use uda_packet::{Command, Op};

/// Executes four commands and prints their end messages.
pub(crate) fn run(rt: &HostRuntime) -> Result<()> {
    let store = MemImage::new(rt.alloc(), 1000)?;
    let mut exec = Exec::new([Some(Drive { store, hard: false }), None, None, None]);
    let mut memory = HostMemory::new(rt.alloc(), 65_536)?;
    *memory.block_within(0x1000) = [0x55; 512];
    execute(rt, &mut exec, &mut memory)
}

// Executes the commands with a memory, and prints whether the Read has the bytes of the Write.
fn execute(rt: &HostRuntime, exec: &mut Exec<MemImage>, memory: &mut HostMemory) -> Result<()> {
    for (reference, op) in [
        (1, Op::Online { soft: None }),
        (2, write(0x1000, 999)),
        (3, read(0x2000, 999)),
        (4, read(0x2000, 1000)),
    ] {
        if exec.pending() < PENDING {
            exec.accept(Command {
                reference,
                unit: 0,
                op,
            });
        }
        if let Some(end) = exec.execute_one(memory) {
            println!(rt; "{end}")?;
        }
    }

    let same = memory.block(0x1000) == memory.block(0x2000);
    println!(rt; "what was written was read: {same}")?;
    Ok(())
}

// Returns a Write of one block from the bytes of memory at an address.
fn write(address: u32, lbn: u32) -> Op {
    Op::Write {
        bytes: 512,
        address,
        lbn,
    }
}

// Returns a Read of one block to the bytes of memory at an address.
fn read(address: u32, lbn: u32) -> Op {
    Op::Read {
        bytes: 512,
        address,
        lbn,
    }
}
