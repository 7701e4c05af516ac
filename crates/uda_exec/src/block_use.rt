//! The blocks that a command uses, and the bytes that it writes to them.
//!
//! MSCP Basic Disk Functions Manual: transfer commands, Compare Host Data.
ghost use Rattle.std.specs.Prelude.{◌≡◌, ◌+◌, ◌*◌, ◌<◌, ◌≤◌, ◌^◌, ◌++◌, Some, length, replicate, take};
ghost use Rattle.uda_mem.specs.Put.{part};
ghost use Rattle.uda_exec.specs.BlockUse.{access_by, range_of, transfer_by, used_by, bytes_written, size_written};
ghost use Rattle.uda_exec.specs.Commands.{transfer_buffer_length};

use crate::block_transfer::block_count;
use crate::compare::compared;
use crate::drive_unit::UnitInfo;
use crate::refusal::transfer_refusal;
use uda_packet::{GuestCommand, GuestOp, Kind, Transfer};

/// How a command uses blocks.
#[derive(Clone, Copy, Debug, PartialEq, Eq)]
pub enum BlockAccess {
    /// It reads their bytes.
    Reads,
    /// It reads them and drops their bytes.
    Checks,
    /// It writes them.
    Writes,
}

/// Blocks of a unit that a command uses, in rising order.
#[derive(Clone, Copy, Debug, PartialEq, Eq)]
pub struct BlockUse {
    /// The unit.
    pub unit: u16,
    /// The first block.
    pub first: u32,
    /// The number of blocks, at least one.
    pub count: u32,
    /// How the command uses them.
    pub access: BlockAccess,
}

/// Returns the transfer of a command, or None if it uses no blocks. A Compare Host Data counts as a Read.
pub fn transfer_by(asked: GuestCommand) -> Option<Transfer>
    ensures { result ≡ transfer_by asked.op asked.command.op }
{
    match asked.op {
        GuestOp::Basic => asked.command.op.transfer(),
        GuestOp::SetUnit => None,
        GuestOp::Compare => Some(compared(asked.command.op)),
    }
}

/// Returns the transfer if it moves blocks in memory of this length, on a unit in this state: no check fails,
/// and it has blocks.
pub fn used_by(t: Transfer, memory: u32, info: UnitInfo) -> Option<Transfer>
    ensures { result ≡ used_by (Some t) memory (Some info) }
{
    if transfer_refusal(t, memory, info.size, info.mode).is_some() || block_count(t) == 0 {
        return None;
    }
    Some(t)
}

/// Returns the blocks of the range of a command's transfer.
pub fn range_of(asked: GuestCommand, t: Transfer) -> BlockUse
    ensures { Some result ≡ range_of (Some asked) (Some t) }
{
    BlockUse {
        unit: asked.command.unit,
        first: t.lbn,
        count: block_count(t),
        access: access_by(t.kind),
    }
}

// Returns how a transfer of this kind uses the blocks of its range.
fn access_by(kind: Kind) -> BlockAccess
    ensures { result ≡ access_by kind }
{
    match kind {
        Kind::Access => BlockAccess::Checks,
        Kind::Read => BlockAccess::Reads,
        Kind::Erase | Kind::Write => BlockAccess::Writes,
    }
}

/// Returns the number of bytes of the blocks that a transfer writes.
pub fn size_written(used: Option<Transfer>) -> u64
    ensures { result ≡ size_written used }
{
    match used {
        Some(t) if t.kind.changes_blocks() => 512 * u64::from(block_count(t)),
        _ => 0,
    }
}

/// Fills `to` with bytes of the blocks that a transfer writes, after the first `skip` blocks.
pub fn fill_written(t: Transfer, memory: &[u8], skip: u32, to: &mut [u8])
    requires in_memory { t.buffer + transfer_buffer_length t ≤ length memory.now }
    requires addressable { t.buffer + transfer_buffer_length t < 2 ^ 32 }
    requires within { 512 * skip + length to.old ≤ size_written (Some t) }
    ensures bytes { to.new ≡ part (bytes_written (Some t) memory.now) (512 * skip) (length to.old) }
{
    match t.kind {
        Kind::Write => {
            let start = (512 * u64::from(skip)).min(u64::from(t.bytes)) as u32;
            let from = uda_mem::window(memory, t.buffer + start, t.bytes - start).unwrap();
            put_padded(from, to);
        }
        Kind::Access | Kind::Erase | Kind::Read => put_padded(&[], to),
    }
}

// Copies bytes over `to`, as many as fit, and fills the rest with zeros.
fn put_padded(from: &[u8], to: &mut [u8])
    ensures { to.new ≡ take (length to.old) (from.now ++ replicate (length to.old) 0) }
{
    let count = from.len().min(to.len());
    to.fill(0);
    to[..count].copy_from_slice(&from[..count]);
}
