//! The checks of a transfer.
//!
//! MSCP Basic Disk Functions Manual: transfer commands, status and event codes.
ghost use Rattle.std.specs.Prelude.{◌≡◌};
ghost use Rattle.uda_exec.specs.Commands.{transfer_buffer_length};
ghost use Rattle.uda_exec.specs.BufferChecks.{transfer_refusal};

use crate::block_transfer::block_count;
use uda_disk::{Mode, Refusal};
use uda_packet::Transfer;

/// Returns the length of a transfer's buffer in bytes. An Access and an Erase have no buffer.
pub(crate) fn transfer_buffer_length(t: Transfer) -> u32
    ensures { result ≡ transfer_buffer_length t }
{
    if t.kind.has_buffer() { t.bytes } else { 0 }
}

// Returns the result of the first check that fails for a transfer on a unit with a drive, or None if all
// succeed. `memory` is the length of host memory in bytes, and `size` the unit's in blocks. The sums have 64
// bits, so none wraps.
pub(crate) fn transfer_refusal(t: Transfer, memory: u32, size: u32, mode: Mode) -> Option<Refusal>
    ensures { result ≡ transfer_refusal t memory size mode }
{
    let lbn = u64::from(t.lbn);
    let changes = t.kind.changes_blocks();
    if !mode.online {
        return Some(Refusal::NotOnline);
    }
    if t.buffer % 2 != 0 {
        return Some(Refusal::OddAddress);
    }
    if t.bytes % 2 != 0 {
        return Some(Refusal::OddCount);
    }
    if lbn >= u64::from(size) {
        return Some(Refusal::BlockPastEnd);
    }
    if lbn + u64::from(block_count(t)) > u64::from(size) {
        return Some(Refusal::RangePastEnd);
    }
    if changes && mode.hard {
        return Some(Refusal::HardwareProtected);
    }
    if changes && mode.soft {
        return Some(Refusal::SoftwareProtected);
    }
    if u64::from(t.buffer) + u64::from(transfer_buffer_length(t)) > u64::from(memory) {
        return Some(Refusal::NoSuchMemory);
    }
    None
}
