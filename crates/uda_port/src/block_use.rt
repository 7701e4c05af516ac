//! The blocks that a turn uses, for a caller that reads and writes its images by calls of its own.
//!
//! MSCP Basic Disk Functions Manual: transfer commands, Compare Host Data.
ghost use Rattle.std.specs.Prelude.{◌≡◌, ◌↔◌, ◌+◌, ◌*◌, ◌≤◌, List, ℕ, IsTrue, Option, length, option_map, IfSome, if◌then◌else◌};
ghost use Rattle.uda_mem.specs.Put.{part};
ghost use Rattle.uda_mem.specs.Slices.{IsMemory};
ghost use Rattle.uda_port.specs.MemoryUse.{AgreesInDescriptors};
ghost use Rattle.uda_port.specs.Plan.{IsPlan};
ghost use Rattle.uda_port.specs.BlockUse.{memory_by, memory_executed, memory_for, blocks_of, block_bytes_of};

use crate::plan::Plan;
use crate::port::Port;
use crate::turn_at::{BusTurn, Fate};
use uda_exec::BlockUse;
use uda_image::BlockStore;

impl<S: BlockStore> Port<S> {
    /// Returns the blocks that this turn over a bus uses ([`turn_at`](Port::turn_at)). Returns None if it executes no
    /// command, if a check of the command fails, or if the command uses no blocks. Of memory only what the turn reads
    /// matters.
    ///
    /// A caller that reads and writes its images by calls of its own makes these blocks ready before the turn.
    pub fn blocks_at(&self, memory: &[u8], bus: &BusTurn) -> Option<BlockUse>
        requires memory { IsMemory memory.now }
        requires planned { IsPlan self.now memory.now bus.now.plan }
        ensures blocks { result ≡ blocks_of bus.now.missing self.now memory.now bus.now.place }
        ensures by_descriptors { (other : List ℕ) → AgreesInDescriptors self.now memory.now other
            → blocks_of bus.now.missing self.now other bus.now.place ≡ result }
    {
        self.blocks_by(memory, bus)
    }

    // Returns the same.
    fn blocks_by(&self, memory: &[u8], bus: &BusTurn) -> Option<BlockUse>
        requires memory { IsMemory memory.now }
        requires planned { IsPlan self.now memory.now bus.now.plan }
        ensures blocks { result ≡ blocks_of bus.now.missing self.now memory.now bus.now.place }
    {
        let memory = self.memory_for(bus, memory)?;
        self.exec.block_use_at(bus.place, uda_mem::len(memory))
    }

    /// Fills `to` with bytes of the blocks that this turn over a bus writes, after the first `skip` blocks, and returns
    /// true ([`blocks_at`](Port::blocks_at)). Returns false and changes nothing if there aren't as many bytes.
    pub fn copy_written(&self, memory: &[u8], bus: &BusTurn, skip: u32, to: &mut [u8]) -> bool
        requires memory { IsMemory memory.now }
        requires planned { IsPlan self.now memory.now bus.now.plan }
        ensures fits { IsTrue result ↔ (512 * skip + length to.old
            ≤ length (block_bytes_of bus.now.missing self.now memory.now bus.now.place)) }
        ensures bytes { to.new ≡ (if result
            then part (block_bytes_of bus.now.missing self.now memory.now bus.now.place) (512 * skip) (length to.old)
            else to.old) }
    {
        match self.memory_for(bus, memory) {
            Some(memory) => self.exec.copy_written(bus.place, memory, skip, to),
            None => asks_none(skip, to),
        }
    }

    // Returns the memory in which this turn executes a pending command, if it executes one.
    fn memory_for<'m>(&self, bus: &BusTurn, memory: &'m [u8]) -> Option<&'m [u8]>
        requires memory { IsMemory memory.now }
        requires planned { IsPlan self.now memory.now bus.now.plan }
        ensures memory { option_map (λ m. m.now) result ≡ memory_for bus.now.missing self.now memory.now }
        ensures valid { IfSome result (λ m. IsMemory m.now) }
    {
        let fate = self.fate(bus.missing, bus.plan);
        memory_executed(bus.plan, fate, memory)
    }
}

// Returns the memory in which a turn of this plan, with this fate, executes a command.
fn memory_executed(plan: Plan, fate: Fate, memory: &[u8]) -> Option<&[u8]>
    requires memory { IsMemory memory.now }
    ensures memory { option_map (λ m. m.now) result ≡ memory_executed plan fate memory.now }
    ensures valid { IfSome result (λ m. IsMemory m.now) }
{
    match plan {
        Plan::ToExecute => memory_by(fate, memory),
        _ => None,
    }
}

// Returns the memory in which a turn with this fate executes a command.
fn memory_by(fate: Fate, memory: &[u8]) -> Option<&[u8]>
    requires memory { IsMemory memory.now }
    ensures memory { option_map (λ m. m.now) result ≡ memory_by fate memory.now }
    ensures valid { IfSome result (λ m. IsMemory m.now) }
{
    match fate {
        Fate::Usual => Some(memory),
        Fate::WithoutBuffer => Some(&memory[..0]),
        Fate::FailsInFetch(_) | Fate::FailsLater(_) => None,
    }
}

// Returns whether a part of no bytes is asked for, after no blocks.
fn asks_none(skip: u32, to: &[u8]) -> bool
    ensures { IsTrue result ↔ (512 * skip + length to.now ≤ 0) }
{
    skip == 0 && to.is_empty()
}
