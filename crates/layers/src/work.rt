//! The works: 64 MB moved through an executor by transfers of one length.
use anyhow::{Result, bail};
use uda_exec::{Exec, PENDING};
use uda_image::BlockStore;
use uda_mem::HostMemory;
use uda_packet::{Command, End, Op, status};

/// The direction in which the blocks move.
#[derive(Clone, Copy, Debug, PartialEq, Eq)]
pub enum Direction {
    /// From the store to memory.
    Read,
    /// From memory to the store.
    Write,
}

impl Direction {
    fn work(self, blocks: u32, transfers: u32) -> Work {
        Work {
            direction: self,
            blocks,
            bytes: blocks.saturating_mul(512),
            transfers,
        }
    }
}

/// 64 MB, moved by transfers of one length.
#[derive(Clone, Copy, Debug, PartialEq, Eq)]
pub struct Work {
    /// The direction in which the blocks move.
    pub direction: Direction,
    /// The number of blocks of a transfer.
    pub blocks: u32,
    /// The number of bytes of a transfer.
    pub bytes: u32,
    /// The number of transfers.
    pub transfers: u32,
}

impl Work {
    /// Returns the work of these arguments: `read` or `write`, and `32` or `1`.
    pub fn named(direction: &str, blocks: &str) -> Result<Work> {
        let direction = match direction {
            "read" => Direction::Read,
            "write" => Direction::Write,
            _ => bail!("the work is read or write"),
        };
        match blocks {
            "32" => Ok(direction.work(32, 4096)),
            "1" => Ok(direction.work(1, 131_072)),
            _ => bail!("a transfer has 32 blocks or 1"),
        }
    }

    /// Returns the first block of the transfer after the one at `block`, on a unit of `size` blocks. It is
    /// the next block, or block 0 if there is no room.
    pub fn next(self, block: u32, size: u32) -> u32 {
        let next = block.saturating_add(self.blocks);
        if next.saturating_add(self.blocks) > size {
            0
        } else {
            next
        }
    }

    // Returns the operation of the transfer at `lbn`.
    fn op(self, lbn: u32) -> Op {
        let (bytes, address) = (self.bytes, 0);
        match self.direction {
            Direction::Read => Op::Read {
                bytes,
                address,
                lbn,
            },
            Direction::Write => Op::Write {
                bytes,
                address,
                lbn,
            },
        }
    }
}

/// Brings unit 0 online.
pub fn bring_online<S: BlockStore>(exec: &mut Exec<S>, memory: &mut HostMemory) -> Result<()> {
    told(execute(exec, memory, Op::Online { soft: None }))
}

/// Executes a work on unit 0, which has `size` blocks.
pub fn execute_all<S: BlockStore>(
    exec: &mut Exec<S>,
    memory: &mut HostMemory,
    work: Work,
    size: u32,
) -> Result<()> {
    let mut block: u32 = 0;
    for _ in 0..work.transfers {
        let done = execute(exec, memory, work.op(block));
        if done.is_err() {
            return told(done);
        }
        block = work.next(block, size);
    }
    Ok(())
}

// Executes one command of unit 0, which must succeed. Otherwise the error is its end message, if it has
// one. The error has no room for a text, which would be filled with zeros for each command.
fn execute<S: BlockStore>(
    exec: &mut Exec<S>,
    memory: &mut HostMemory,
    op: Op,
) -> Result<(), Option<End>> {
    if exec.pending() < PENDING {
        exec.accept(Command {
            reference: 0,
            unit: 0,
            op,
        });
    }
    match exec.execute_one(memory) {
        Some(end) if end.status == status::SUCCESS => Ok(()),
        end => Err(end),
    }
}

// Returns the result of a command, with a text for an error.
fn told(done: Result<(), Option<End>>) -> Result<()> {
    match done {
        Ok(()) => Ok(()),
        Err(Some(end)) => bail!("{end}"),
        Err(None) => bail!("nothing was pending"),
    }
}
